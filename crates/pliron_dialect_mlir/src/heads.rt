//! The heads of operations of each class: what their attributes say, and where. The form of the text is the last one.
ghost use Rattle.std.specs.Prelude.{◌≡◌, ◌+◌, ◌<◌, pos, ◌∷◌, [], ◌++◌, map, IfOk, OnOk, OnErr, List, ℕ, ℤ};
ghost use Rattle.pliron_core.specs.declared.attrs.AttrObj.{AttrObj as Attribute};
ghost use Rattle.pliron_core.specs.declared.attrs.AttrObj.TheVariants.{Int};
ghost use Rattle.pliron_dialect_mlir.specs.Heads.{attributes, naturals, head_of_class, constant_head as constant_head_of};
ghost use Rattle.pliron_dialect_mlir.specs.Heads.{plain_class_head as plain_head_of, named_head as named_head_of, binary_head as binary_head_of, compare_head as compare_head_of};
ghost use Rattle.pliron_dialect_mlir.specs.Heads.{cast_head as cast_head_of, branch_head as branch_head_of, switch_head as switch_head_of};

use crate::kind::{Class, class_number};
use pliron_bits::{BinaryOperator, Cast, Flags, Predicate};
use pliron_core::{AttrObj, Attrs, Head};
use std::alloc::{AllocFailed, Global};

// The head of an operation of the class with these numbers as attributes.
pub(crate) fn head_with(
    alloc: Global,
    class: Class,
    numbers: &[i128],
) -> Result<Head, AllocFailed<AttrObj>>
    ensures { IfOk result (λ head. head ≡ head_of_class class numbers.now) }
{
    let mut attrs = Vec::new(alloc);
    for number in numbers {
        attrs.push(AttrObj::Int(*number))?;
    }
    Ok(Head {
        kind: class_number(class),
        ssa: !matches!(class, Class::Module),
        attrs: Attrs::new(attrs),
    })
}

/// The head of a constant with this datum. Errors: allocation failure. Cost: constant.
pub fn constant_head(alloc: Global, datum: i128, form: usize) -> Result<Head, AllocFailed<AttrObj>>
    ensures { IfOk result (λ head. head ≡ constant_head_of datum form) }
{
    head_with(alloc, Class::Constant, &[datum, form as i128])
}

/// The head of an operation of a class whose attributes are the form alone. Errors: allocation failure. Cost: constant.
pub fn plain_head(alloc: Global, class: Class, form: usize) -> Result<Head, AllocFailed<AttrObj>>
    ensures { IfOk result (λ head. head ≡ plain_head_of class form) }
{
    head_with(alloc, class, &[form as i128])
}

/// The head of a call of the function whose name has this number, or of that function. Errors: allocation failure. Cost:
/// constant.
pub fn named_head(
    alloc: Global,
    class: Class,
    symbol: usize,
    form: usize,
) -> Result<Head, AllocFailed<AttrObj>>
    ensures { IfOk result (λ head. head ≡ named_head_of class symbol form) }
{
    head_with(alloc, class, &[symbol as i128, form as i128])
}

/// The head of an operation that computes an integer of this width of two. Errors: allocation failure. Cost: constant.
pub fn binary_head(
    alloc: Global,
    operator: BinaryOperator,
    width: u32,
    flags: Flags,
    form: usize,
) -> Result<Head, AllocFailed<AttrObj>>
    ensures { IfOk result (λ head. head ≡ binary_head_of operator width flags form) }
{
    let numbers = [width as i128, flags.number() as i128, form as i128];
    head_with(alloc, Class::Binary(operator), &numbers)
}

/// The head of a comparison of integers of this width. Errors: allocation failure. Cost: constant.
pub fn compare_head(
    alloc: Global,
    width: u32,
    predicate: Predicate,
    form: usize,
) -> Result<Head, AllocFailed<AttrObj>>
    ensures { IfOk result (λ head. head ≡ compare_head_of width predicate form) }
{
    let numbers = [width as i128, predicate.number() as i128, form as i128];
    head_with(alloc, Class::Compare, &numbers)
}

/// The head of a cast of integers of this width to another. Errors: allocation failure. Cost: constant.
pub fn cast_head(
    alloc: Global,
    cast: Cast,
    width: u32,
    to: u32,
    flags: Flags,
    form: usize,
) -> Result<Head, AllocFailed<AttrObj>>
    ensures { IfOk result (λ head. head ≡ cast_head_of cast width to flags form) }
{
    let numbers = [
        width as i128,
        to as i128,
        flags.number() as i128,
        form as i128,
    ];
    head_with(alloc, Class::Cast(cast), &numbers)
}

/// The head of a branch that passes so many operands where its condition is 1, and so many where it is 0. Errors:
/// allocation failure. Cost: constant.
pub fn branch_head(
    alloc: Global,
    on_true: usize,
    on_false: usize,
    form: usize,
) -> Result<Head, AllocFailed<AttrObj>>
    ensures { IfOk result (λ head. head ≡ branch_head_of on_true on_false form) }
{
    let numbers = [on_true as i128, on_false as i128, form as i128];
    head_with(alloc, Class::Branch, &numbers)
}

// The numbers behind the attributes. Where memory is refused, some of them.
fn push_counts(attrs: &mut Vec<AttrObj>, counts: &[usize]) -> Result<(), AllocFailed<AttrObj>>
    ensures { OnOk result (attrs.new.items ≡ attrs.old.items ++ attributes (naturals counts.now)) }
{
    for count in counts {
        attrs.push(AttrObj::Int(*count as i128))?;
    }
    Ok(())
}

// The numbers behind the attributes. Where memory is refused, some of them.
fn push_cases(attrs: &mut Vec<AttrObj>, cases: &[u64]) -> Result<(), AllocFailed<AttrObj>>
    ensures { OnOk result (attrs.new.items ≡ attrs.old.items ++ attributes (naturals cases.now)) }
{
    for case in cases {
        attrs.push(AttrObj::Int(*case as i128))?;
    }
    Ok(())
}

/// The head of a switch over integers of this width: how many operands each edge passes, that of the default first,
/// and the bits of each case. A width of 0 says nothing of cases. Errors: allocation failure. Cost: linear in the
/// lengths of both.
pub fn switch_head(
    alloc: Global,
    counts: &[usize],
    width: u32,
    cases: &[u64],
    form: usize,
) -> Result<Head, AllocFailed<AttrObj>>
    ensures { IfOk result (λ head. head ≡ switch_head_of counts.now width cases.now form) }
{
    let mut attrs = Vec::new(alloc);
    push_counts(&mut attrs, counts)?;
    attrs.push(AttrObj::Int(width as i128))?;
    push_cases(&mut attrs, cases)?;
    attrs.push(AttrObj::Int(form as i128))?;
    Ok(Head {
        kind: class_number(Class::Switch),
        ssa: true,
        attrs: Attrs::new(attrs),
    })
}
