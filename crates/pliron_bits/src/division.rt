//! Quotients and remainders.
ghost use Rattle.std.specs.Prelude.{◌≡◌, ◌≢◌, ℤ, pos, ◌≤◌, ◌<◌, ◌^◌, ◌-◌, IfSome, IfErr, unsigned_abs};
ghost use Rattle.pliron_bits.specs.Arithmetic.{unsigned_quotient as unsigned_quotient_of, unsigned_remainder as unsigned_remainder_of, signed_quotient as signed_quotient_of, signed_remainder as signed_remainder_of, divides as divides_by};
ghost use Rattle.pliron_bits.specs.Arithmetic.{unsigned_quotient_up as unsigned_quotient_up_of, signed_quotient_up as signed_quotient_up_of, signed_quotient_down as signed_quotient_down_of, bits_in_reach as bits_in_reach_of, floor_of, ceiling_of};

use crate::flags::Flags;
use crate::integers::{euclidean, over, rest};
use crate::readings::{bits, is_signed, signed_value};

/// The quotient, which rounds down. None where the divisor is 0, and where there is a remainder and it has to be exact.
/// Cost: constant.
pub fn unsigned_quotient(flags: Flags, a: u64, b: u64) -> Option<u64>
    ensures { result ≡ unsigned_quotient_of flags a b }
{
    if b == 0 || (flags.exact && a % b != 0) {
        None
    } else {
        Some(a / b)
    }
}

/// The quotient, which rounds up. None where the divisor is 0. Cost: constant.
pub fn unsigned_quotient_up(a: u64, b: u64) -> Option<u64>
    ensures { result ≡ unsigned_quotient_up_of a b }
{
    if b == 0 { None } else { Some(a.div_ceil(b)) }
}

/// The remainder. None where the divisor is 0. Cost: constant.
pub fn unsigned_remainder(a: u64, b: u64) -> Option<u64>
    ensures { result ≡ unsigned_remainder_of a b }
{
    if b == 0 { None } else { Some(a % b) }
}

// Whether the signed quotient has a meaning.
fn divides(width: u32, a: u64, b: u64) -> bool
    requires at_least { 1 ≤ width }
    requires at_most { width ≤ 64 }
    requires first { a < 2 ^ width }
    requires second { b < 2 ^ width }
    ensures { result ≡ divides_by width a b }
{
    if b == 0 {
        false
    } else {
        is_signed(width, over(signed_value(width, a), signed_value(width, b)))
    }
}

/// The quotient of the numbers read as signed, which rounds to 0. None where the divisor is 0, where the quotient is
/// past the signed numbers, and where there is a remainder and it has to be exact. Asks for a width from 1 to 64, and
/// numbers of it. Cost: constant.
pub fn signed_quotient(flags: Flags, width: u32, a: u64, b: u64) -> Option<u64>
    requires at_least { 1 ≤ width }
    requires at_most { width ≤ 64 }
    requires first { a < 2 ^ width }
    requires second { b < 2 ^ width }
    ensures same { result ≡ signed_quotient_of flags width a b }
    ensures number { IfSome result (λ n. n < 2 ^ width) }
{
    if !divides(width, a, b) {
        return None;
    }
    let (first, second) = (signed_value(width, a), signed_value(width, b));
    if flags.exact && rest(first, second) != 0 {
        None
    } else {
        Some(bits(width, over(first, second)))
    }
}

// The quotient, which rounds down.
fn floor(a: i128, b: i128) -> i128
    requires first { unsigned_abs a ≤ 2 ^ 64 }
    requires second { b ≢ pos 0 }
    requires small { unsigned_abs b ≤ 2 ^ 64 }
    ensures { result ≡ floor_of a b }
{
    if 0 < b {
        euclidean(a, b)
    } else {
        euclidean(-a, -b)
    }
}

// The quotient, which rounds up.
fn ceiling(a: i128, b: i128) -> i128
    requires first { unsigned_abs a ≤ 2 ^ 64 }
    requires second { b ≢ pos 0 }
    requires small { unsigned_abs b ≤ 2 ^ 64 }
    ensures { result ≡ ceiling_of a b }
{
    if 0 < b {
        euclidean(-a, -b)
    } else {
        euclidean(a, b)
    }
}

// The bits of a quotient, unless it is past the signed numbers.
fn bits_in_reach(width: u32, quotient: i128) -> Option<u64>
    requires at_least { 1 ≤ width }
    requires at_most { width ≤ 64 }
    ensures same { result ≡ bits_in_reach_of width quotient }
    ensures number { IfSome result (λ n. n < 2 ^ width) }
{
    if is_signed(width, quotient) {
        Some(bits(width, quotient))
    } else {
        None
    }
}

/// The quotient of the numbers read as signed, which rounds up. None where the divisor is 0, and where the quotient is
/// past the signed numbers. Asks for a width from 1 to 64, and numbers of it. Cost: constant.
pub fn signed_quotient_up(width: u32, a: u64, b: u64) -> Option<u64>
    requires at_least { 1 ≤ width }
    requires at_most { width ≤ 64 }
    requires first { a < 2 ^ width }
    requires second { b < 2 ^ width }
    ensures same { result ≡ signed_quotient_up_of width a b }
    ensures number { IfSome result (λ n. n < 2 ^ width) }
{
    if b == 0 {
        None
    } else {
        bits_in_reach(
            width,
            ceiling(signed_value(width, a), signed_value(width, b)),
        )
    }
}

/// The quotient of the numbers read as signed, which rounds down. None where the divisor is 0, and where the quotient
/// is past the signed numbers. Asks for a width from 1 to 64, and numbers of it. Cost: constant.
pub fn signed_quotient_down(width: u32, a: u64, b: u64) -> Option<u64>
    requires at_least { 1 ≤ width }
    requires at_most { width ≤ 64 }
    requires first { a < 2 ^ width }
    requires second { b < 2 ^ width }
    ensures same { result ≡ signed_quotient_down_of width a b }
    ensures number { IfSome result (λ n. n < 2 ^ width) }
{
    if b == 0 {
        None
    } else {
        bits_in_reach(width, floor(signed_value(width, a), signed_value(width, b)))
    }
}

/// The remainder of the numbers read as signed, which has the sign of the first one. None where the divisor is 0, and
/// where the quotient is past the signed numbers. Asks for a width from 1 to 64, and numbers of it. Cost: constant.
pub fn signed_remainder(width: u32, a: u64, b: u64) -> Option<u64>
    requires at_least { 1 ≤ width }
    requires at_most { width ≤ 64 }
    requires first { a < 2 ^ width }
    requires second { b < 2 ^ width }
    ensures same { result ≡ signed_remainder_of width a b }
    ensures number { IfSome result (λ n. n < 2 ^ width) }
{
    if divides(width, a, b) {
        Some(bits(width, rest(signed_value(width, a), signed_value(width, b))))
    } else {
        None
    }
}
