//! Operations whose heads are marked and have no attribute but that of their form.
ghost use Rattle.std.specs.Prelude.{◌≡◌};
ghost use Rattle.pliron_role_runs.specs.Plain.{is_plain as is_plain_in, plain_attributes as fits_form};
ghost use Rattle.pliron_dialect_bench.specs.Bench.{has_none as is_without, has_number as is_one_number, has_count as is_one_count, is_count as counts_below};

use crate::numbers::is_number;
use pliron_core::{AttrObj, Attrs, Head};
use pliron_dialect::{Counting, Form};

// Whether there is no attribute.
fn has_none(attrs: &Attrs) -> bool
    ensures { result ≡ is_without attrs.now }
{
    attrs.is_empty()
}

// Whether there is one, which is a number within 64 signed bits.
fn has_number(attrs: &Attrs) -> bool
    ensures { result ≡ is_one_number attrs.now }
{
    attrs.len() == 1 && is_number(attrs.get(0))
}

// Whether the attribute counts some of the operands behind the first one.
fn is_count(attr: &AttrObj, operands: usize) -> bool
    ensures { result ≡ counts_below attr.now operands }
{
    match attr {
        AttrObj::Int(number) => 0 <= *number && *number < operands as i128,
        AttrObj::Text(_) => false,
    }
}

// Whether there is one, which counts some of the operands behind the first one.
fn has_count(attrs: &Attrs, operands: usize) -> bool
    ensures { result ≡ is_one_count attrs.now operands }
{
    attrs.len() == 1 && is_count(attrs.get(0), operands)
}

// Whether an operation of this form with so many operands has the attribute that it takes, and no other.
fn fits_attributes(form: Form, attrs: &Attrs, operands: usize) -> bool
    ensures { result ≡ fits_form form attrs.now operands }
{
    match form {
        Form::Constant => has_number(attrs),
        Form::Chooses(Counting::OfFirst) => has_count(attrs, operands),
        Form::Chooses(Counting::OfEach) => true,
        _ => has_none(attrs),
    }
}

/// Whether an operation of this form with so many operands may have this head, in a small dialect of numbers: the head
/// is marked; a constant has one attribute, a number within 64 signed bits; a branch with two edges has one, which counts
/// the operands of the first edge; another has none. Cost: constant.
pub fn is_plain(form: Form, head: &Head, operands: usize) -> bool
    ensures { result ≡ is_plain_in form head.now operands }
{
    head.ssa && fits_attributes(form, &head.attrs, operands)
}
