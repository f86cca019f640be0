//! What heads and data say, for code that prints operations.
ghost use Rattle.std.specs.Prelude.{◌≡◌, ◌-◌, ℕ, length, Some, None};
ghost use Rattle.pliron_dialect_mlir.specs.ClassNumbers.{class_of_number};
ghost use Rattle.pliron_dialect_mlir.specs.Data.{integer_in, form_in as form_said_by, other_constant as other_constant_of};
ghost use Rattle.pliron_dialect_mlir.specs.Heads.{attribute_at as attribute_in, form_in as form_of_head, made_attributes as made_attributes_of, last_behind as last_behind_of};

use crate::attributes::attribute_at;
use crate::data::bits_at;
use crate::kind::{Class, numbered_class};
use pliron_core::{Attrs, Head};

/// The class that a head says, if there is one. Cost: constant.
pub fn class_of_head(head: &Head) -> Option<Class>
    ensures { result ≡ class_of_number head.now.kind }
{
    numbered_class(head.kind)
}

// How many attributes an operation of the class has that passes made.
fn made_attributes(class: Class) -> usize
    ensures { result ≡ made_attributes_of class }
{
    match class {
        Class::Constant => 1,
        Class::Compare | Class::Binary(_) => 2,
        Class::Cast(_) => 3,
        _ => 0,
    }
}

// The last attribute, where there are more than so many.
fn last_behind(least: usize, attrs: &Attrs) -> Option<u128>
    ensures { result ≡ last_behind_of least attrs.now }
{
    if least < attrs.len() {
        Some(attribute_at(attrs, attrs.len() - 1))
    } else {
        None
    }
}

/// The form of the text of an operation with this head; none where a pass made it. Cost: constant.
pub fn form_of(head: &Head) -> Option<u128>
    ensures { result ≡ form_of_head (class_of_number head.now.kind) head.now.attrs }
{
    match class_of_head(head) {
        Some(class) => last_behind(made_attributes(class), &head.attrs),
        None => None,
    }
}

/// How many operands a branch passes on this edge. Cost: constant.
pub fn count_of_edge(head: &Head, edge: usize) -> u128
    ensures { result ≡ attribute_in head.now.attrs edge }
{
    attribute_at(&head.attrs, edge)
}

/// The width and the bits of a datum that is an integer. Cost: constant.
pub fn integer_of(datum: i128) -> Option<(u32, u64)>
    ensures { result ≡ integer_in datum }
{
    if datum < 0 {
        return None;
    }
    let width = datum as u128 / 18_446_744_073_709_551_616;
    if width > 65 {
        return None;
    }
    match bits_at(width as u32, datum) {
        Some(bits) => Some((width as u32, bits)),
        None => None,
    }
}

/// The datum of a constant that is no integer, by the form of its text. Cost: constant.
pub fn other_constant(form: usize) -> i128
    ensures { result ≡ other_constant_of form }
{
    -1 - form as i128
}

/// The form of the text of a constant with this datum, where it is no integer of a width. Cost: constant.
pub fn form_of_constant(datum: i128) -> Option<u128>
    ensures { result ≡ form_said_by datum }
{
    if datum < 0 {
        Some((-1 - datum) as u128)
    } else {
        None
    }
}
