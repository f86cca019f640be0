//! What operations on integers give of data that are no numbers, or where LLVM says poison.
ghost use Rattle.std.specs.Prelude.{◌≡◌, [], ◌∷◌, Some, map, IfOk, IfSome};
ghost use Rattle.pliron_laws.specs.Datum.{Number as NumberOf};
ghost use Rattle.pliron_evaluator.specs.Evaluator.{datum_of_value};
ghost use Rattle.pliron_dialect_mlir.specs.OtherData.{is_of_width as is_of_width_in, first_other as first_other_in, passed_on as passed_on_by, passing, given_otherwise as given_by};

use crate::attributes::width_at;
use crate::data::bits_at;
use crate::kind::{Class, numbered_class};
use crate::meaning::Computes;
use pliron_core::Head;
use pliron_evaluator::evaluator::Datum;
use std::alloc::{AllocError, Global};

// Above the integers of all widths: 66 times two to the 64.
const ABOVE_INTEGERS: u128 = 1_217_485_108_864_830_406_656;

// Whether the datum is a number of the width.
fn is_of_width(width: u32, datum: &Datum) -> bool
    ensures { result ≡ is_of_width_in width (datum_of_value datum.now) }
{
    match datum {
        Datum::Number(number) => bits_at(width, *number).is_some(),
        _ => false,
    }
}

// The first of the data that is no number of the width, poison where there is none.
fn first_other(alloc: Global, width: u32, input: &[Datum]) -> Result<Datum, AllocError>
    ensures { IfOk result (λ datum. datum_of_value datum ≡ first_other_in width (map datum_of_value input.now)) }
{
    for datum in input {
        if !is_of_width(width, datum) {
            return datum.copy(alloc);
        }
    }
    Ok(Datum::Empty)
}

// The number that is none of the one width as one that is none of the other; `None` where that takes more than 127 bits.
fn passed_number(width: u32, to: u32, number: i128) -> Option<i128>
    ensures { IfSome result (λ passed. NumberOf passed ≡ passed_on_by width to (NumberOf number)) }
{
    if number < 0 {
        return Some(number);
    }
    let all = number as u128;
    let rest = (all % ABOVE_INTEGERS) as i128;
    match (bits_at(width, rest).is_some(), bits_at(to, rest).is_some()) {
        (true, false) => Some(all.saturating_sub(ABOVE_INTEGERS) as i128),
        (false, true) => number.checked_add(ABOVE_INTEGERS as i128),
        _ => Some(number),
    }
}

// The first of the data that is no number of the one width, as one that is none of the other.
fn passed_on(
    alloc: Global,
    width: u32,
    to: u32,
    input: &[Datum],
) -> Result<Option<Vec<Datum>>, AllocError>
    ensures { IfOk result (λ found. IfSome found (λ values. map datum_of_value values.items ≡ passed_on_by width to
        (first_other_in width (map datum_of_value input.now)) ∷ [])) }
{
    match first_other(alloc, width, input)? {
        Datum::Number(number) => match passed_number(width, to, number) {
            Some(passed) => Ok(Some(one(alloc, Datum::Number(passed))?)),
            None => Ok(None),
        },
        other => Ok(Some(one(alloc, other)?)),
    }
}

// The datum alone.
fn one(alloc: Global, datum: Datum) -> Result<Vec<Datum>, AllocError>
    ensures { IfOk result (λ whole. whole.items ≡ datum ∷ []) }
{
    let mut data = Vec::new(alloc);
    data.push(datum)?;
    Ok(data)
}

// What is given of an operation of the class where no table says it; `None` where that isn't known.
fn given_of_class<I: Computes>(
    alloc: Global,
    class: Class,
    head: &Head,
    input: &[Datum],
) -> Result<Option<Vec<Datum>>, AllocError>
    ensures { IfOk result (λ found. IfSome found (λ values. map datum_of_value values.items ≡ passing (Some class)
        I.value head.now (map datum_of_value input.now))) }
{
    let width = width_at(&head.attrs, 0);
    match class {
        Class::Compare => passed_on(alloc, width, 1, input),
        Class::Cast(_) => passed_on(alloc, width, width_at(&head.attrs, 1), input),
        Class::Binary(_) => Ok(Some(one(alloc, first_other(alloc, width, input)?)?)),
        _ => I::compute(alloc, head, input),
    }
}

/// What is given where no table says it; `None` where that isn't known. Errors: allocation failure. Cost: linear in the
/// data.
pub(crate) fn given_otherwise<I: Computes>(
    alloc: Global,
    head: &Head,
    input: &[Datum],
) -> Result<Option<Vec<Datum>>, AllocError>
    ensures { IfOk result (λ found. IfSome found (λ values. map datum_of_value values.items ≡ given_by I.value
        head.now (map datum_of_value input.now))) }
{
    match numbered_class(head.kind) {
        Some(class) => given_of_class::<I>(alloc, class, head, input),
        None => I::compute(alloc, head, input),
    }
}
