//! Attributes as numbers of 64 signed bits.
ghost use Rattle.std.specs.Prelude.{◌≡◌, ◌-◌};
ghost use Rattle.std.specs.Int.{w64, int_wrap};
ghost use Rattle.pliron_dialect_bench.specs.Bench.{is_number_attribute as is_number_within};
ghost use Rattle.pliron_dialect_bench.specs.BenchNumbers.{fits as is_within, wrapped_known_at, wrapping_sum as sum_of, wrapping_product as product_of, known_sum as sum_known, known_product as product_known, zero_only as zero_of, known_quotient as quotient_known, quotient as quotient_in};
ghost use Rattle.pliron_dialect_bench.specs.BenchMoves.{edge_of as edge_in};

use pliron_core::AttrObj;

/// What is left of the number in 64 signed bits. Cost: constant.
#[inline(always)]
pub fn wrap(number: i128) -> i64
    ensures { result ≡ int_wrap w64 number }
{
    let bits = number.rem_euclid(18_446_744_073_709_551_616);
    (bits as u64).cast_signed()
}

// Whether the number lies within 64 signed bits.
#[inline(always)]
fn fits(number: i128) -> bool
    ensures { result ≡ is_within number }
{
    -9_223_372_036_854_775_808 <= number && number <= 9_223_372_036_854_775_807
}

/// Whether the attribute is a number within 64 signed bits. Cost: constant.
#[inline(always)]
pub fn is_number(attr: &AttrObj) -> bool
    ensures { result ≡ is_number_within attr.now }
{
    match attr {
        AttrObj::Int(number) => fits(*number),
        AttrObj::Text(_) => false,
    }
}

/// The number that is known at this index, brought into 64 signed bits. Cost: constant.
#[inline(always)]
pub fn known_number(numbers: &[Option<i128>], i: usize) -> Option<i64>
    ensures { result ≡ wrapped_known_at numbers.now i }
{
    if i >= numbers.len() {
        return None;
    }
    match numbers[i] {
        Some(number) => Some(wrap(number)),
        None => None,
    }
}

/// The sum, where both are known. Cost: constant.
#[inline(always)]
pub fn known_sum(a: Option<i64>, b: Option<i64>) -> Option<i64>
    ensures { result ≡ sum_known a b }
{
    match (a, b) {
        (Some(a), Some(b)) => Some(sum(a, b)),
        _ => None,
    }
}

/// The wrapped sum. Cost: constant.
#[inline(always)]
pub fn sum(a: i64, b: i64) -> i64
    ensures { result ≡ sum_of a b }
{
    a.wrapping_add(b)
}

/// The product, where both are known or one of them is known to be 0. Cost: constant.
pub fn known_product(a: Option<i64>, b: Option<i64>) -> Option<i64>
    ensures { result ≡ product_known a b }
{
    match (a, b) {
        (Some(a), Some(b)) => Some(product(a, b)),
        (Some(factor), None) => zero_only(factor),
        (None, Some(factor)) => zero_only(factor),
        (None, None) => None,
    }
}

/// The wrapped product. Cost: constant.
pub fn product(a: i64, b: i64) -> i64
    ensures { result ≡ product_of a b }
{
    a.wrapping_mul(b)
}

// 0, if the number is 0.
fn zero_only(number: i64) -> Option<i64>
    ensures { result ≡ zero_of number }
{
    if number == 0 { Some(0) } else { None }
}

/// The quotient cut toward zero, where both are known and the division doesn't trap. Cost: constant.
pub fn known_quotient(a: Option<i64>, b: Option<i64>) -> Option<i64>
    ensures { result ≡ quotient_known a b }
{
    match (a, b) {
        (Some(a), Some(b)) => quotient(a, b),
        _ => None,
    }
}

/// The quotient cut toward zero, unless b is 0 or the quotient doesn't fit. Cost: constant.
pub fn quotient(a: i64, b: i64) -> Option<i64>
    ensures { result ≡ quotient_in a b }
{
    a.checked_div(b)
}

/// The edge that a `cbr` with this condition takes. Cost: constant.
pub fn edge_of(condition: i64) -> usize
    ensures { result ≡ edge_in condition }
{
    if condition == 0 { 1 } else { 0 }
}
