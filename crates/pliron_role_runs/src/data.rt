//! Data in lists.
ghost use Rattle.std.specs.Prelude.{◌≡◌, [], ◌∷◌, Some, map, drop, IfOk};
ghost use Rattle.pliron_evaluator.specs.Evaluator.{datum_of_value};
ghost use Rattle.pliron_dialect.specs.Roles.{number_of as number_in, first_number as first_in, numbers_of as numbers_in, nth_datum as nth_in, fit_data};

use pliron_evaluator::evaluator::Datum;
use std::alloc::{AllocError, Global};

/// Copies of the data, in order. Errors: allocation failure. Cost: that of the copies.
pub fn all_copies(alloc: Global, items: &[Datum]) -> Result<Vec<Datum>, AllocError>
    ensures { IfOk result (λ copies. map datum_of_value copies.items ≡ map datum_of_value items.now) }
{
    let mut copies = Vec::new(alloc);
    for datum in items {
        copies.push(datum.copy(alloc)?)?;
    }
    Ok(copies)
}

/// The datum alone. Errors: allocation failure. Cost: constant.
pub fn one(alloc: Global, datum: Datum) -> Result<Vec<Datum>, AllocError>
    ensures { IfOk result (λ whole. whole.items ≡ datum ∷ []) }
{
    let mut data = Vec::new(alloc);
    data.push(datum)?;
    Ok(data)
}

/// The datum as a number, where all but numbers count as 0. Cost: constant.
pub fn number_of(datum: &Datum) -> i128
    ensures { result ≡ number_in (datum_of_value datum.now) }
{
    match datum {
        Datum::Number(number) => *number,
        _ => 0,
    }
}

/// The first of the data as a number, by default 0. Cost: constant.
pub fn first_number(input: &[Datum]) -> i128
    ensures { result ≡ first_in (map datum_of_value input.now) }
{
    if input.is_empty() {
        0
    } else {
        number_of(&input[0])
    }
}

/// The data as numbers that are known. Errors: allocation failure. Cost: how many there are.
pub fn known_numbers(alloc: Global, input: &[Datum]) -> Result<Vec<Option<i128>>, AllocError>
    ensures { IfOk result (λ numbers. numbers.items ≡ map Some (numbers_in (map datum_of_value input.now))) }
{
    let mut numbers = Vec::new(alloc);
    for datum in input {
        numbers.push(Some(number_of(datum)))?;
    }
    Ok(numbers)
}

/// The datum at this place, by default nothing. Errors: allocation failure. Cost: that of a copy.
pub fn nth_datum(alloc: Global, input: &[Datum], i: usize) -> Result<Datum, AllocError>
    ensures { IfOk result (λ datum. datum_of_value datum ≡ nth_in (map datum_of_value input.now) i) }
{
    if i < input.len() {
        input[i].copy(alloc)
    } else {
        Ok(Datum::Empty)
    }
}

/// So many of the data: cut, or filled with nothing. Errors: allocation failure. Cost: that of copies.
pub fn fitted_to(alloc: Global, count: usize, input: &[Datum]) -> Result<Vec<Datum>, AllocError>
    ensures { IfOk result (λ values. map datum_of_value values.items ≡ fit_data count (map datum_of_value input.now)) }
{
    let mut data = Vec::new(alloc);
    for i in 0..count {
        data.push(nth_datum(alloc, input, i)?)?;
    }
    Ok(data)
}
