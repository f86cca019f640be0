//! Numbers of 64 signed bits.
ghost use Rattle.std.specs.Prelude.{◌≡◌, None, slice_index_or};
ghost use Rattle.std.specs.Int.{w64, int_wrap};
ghost use Rattle.pliron_evaluator.specs.Evaluator.{datum_of_value};
ghost use Rattle.pliron_role_runs.specs.Numbers.{whole_number_of, is_whole_number as is_number_within, known_at as known_in};
ghost use Rattle.pliron_role_runs.specs.Numbers.{are_known as are_known_in, where_known as where_known_in, wrapped_sum as sum_of};
ghost use Rattle.pliron_role_runs.specs.Numbers.{wrapped_product as product_of, less as less_of, edge_by_condition as edge_in};
ghost use Rattle.pliron_dialect_bench.specs.BenchNumbers.{fits as is_within};

use pliron_core::AttrObj;
use pliron_evaluator::evaluator::Datum;

/// What is left of the number in 64 signed bits. Cost: constant.
pub fn wrap(number: i128) -> i64
    ensures { result ≡ int_wrap w64 number }
{
    let bits = number.rem_euclid(18_446_744_073_709_551_616);
    (bits as u64).cast_signed()
}

// Whether the number lies within 64 signed bits.
fn fits(number: i128) -> bool
    ensures { result ≡ is_within number }
{
    -9_223_372_036_854_775_808 <= number && number <= 9_223_372_036_854_775_807
}

/// Whether the attribute is a number within 64 signed bits. Cost: constant.
pub fn is_number(attr: &AttrObj) -> bool
    ensures { result ≡ is_number_within attr.now }
{
    match attr {
        AttrObj::Int(number) => fits(*number),
        AttrObj::Text(_) => false,
    }
}

/// The datum as a number of 64 signed bits, by default 0. Cost: constant.
pub fn number_of(datum: &Datum) -> i64
    ensures { result ≡ whole_number_of (datum_of_value datum.now) }
{
    match datum {
        Datum::Number(number) => wrap(*number),
        _ => 0,
    }
}

/// The wrapped sum. Cost: constant.
pub fn sum(a: i64, b: i64) -> i64
    ensures { result ≡ sum_of a b }
{
    a.wrapping_add(b)
}

/// The wrapped product. Cost: constant.
pub fn product(a: i64, b: i64) -> i64
    ensures { result ≡ product_of a b }
{
    a.wrapping_mul(b)
}

/// 1 if a is below b, else 0. Cost: constant.
pub fn less(a: i64, b: i64) -> i64
    ensures { result ≡ less_of a b }
{
    if a < b { 1 } else { 0 }
}

/// The edge that a branch with this condition takes. Cost: constant.
pub fn edge_of(condition: i64) -> usize
    ensures { result ≡ edge_in condition }
{
    if condition == 0 { 1 } else { 0 }
}

// What is known of the operand at this place.
fn number_at(numbers: &[Option<i128>], i: usize) -> Option<i128>
    ensures { result ≡ slice_index_or numbers.now i None }
{
    if i < numbers.len() { numbers[i] } else { None }
}

/// The number that is known of the operand at this place, in 64 signed bits, by default 0. Cost: constant.
pub fn known_at(numbers: &[Option<i128>], i: usize) -> i64
    ensures { result ≡ known_in numbers.now i }
{
    match number_at(numbers, i) {
        Some(number) => wrap(number),
        None => 0,
    }
}

// Whether all operands are known.
fn are_known(numbers: &[Option<i128>]) -> bool
    ensures { result ≡ are_known_in numbers.now }
{
    for i in 0..numbers.len() {
        match number_at(numbers, i) {
            Some(_) => {}
            None => return false,
        }
    }
    true
}

/// The number, where all operands are known. Cost: the number of operands.
pub fn where_known(numbers: &[Option<i128>], number: i64) -> Option<i128>
    ensures { result ≡ where_known_in numbers.now number }
{
    if are_known(numbers) {
        Some(number as i128)
    } else {
        None
    }
}
