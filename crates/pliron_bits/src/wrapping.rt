//! Sums, differences and products, which wrap.
ghost use Rattle.std.specs.Prelude.{◌≡◌, Bool, ◌≤◌, ◌<◌, ◌^◌, ◌+◌, ◌-◌, ◌*◌, IfSome};
ghost use Rattle.pliron_bits.specs.Arithmetic.{wraps as wraps_by, wrap as wrapped_by, sum as sum_of, difference as difference_of, product as product_of};

use crate::flags::Flags;
use crate::integers::{minus, plus, times};
use crate::readings::{is_signed, signed_value, size};

// Whether the result must not wrap and does.
fn wraps(flags: Flags, width: u32, exact: i128, fits: bool) -> bool
    requires at_least { 1 ≤ width }
    requires at_most { width ≤ 64 }
    ensures { result ≡ wraps_by flags width exact fits }
{
    (flags.no_signed_wrap && !is_signed(width, exact)) || (flags.no_unsigned_wrap && !fits)
}

// What is left of the unsigned result, where it may wrap or doesn't, by the exact one read as signed.
pub(crate) fn wrap(flags: Flags, width: u32, exact: i128, fits: bool, n: u128) -> Option<u64>
    requires at_least { 1 ≤ width }
    requires at_most { width ≤ 64 }
    ensures same { result ≡ wrapped_by flags width exact fits n }
    ensures number { IfSome result (λ n. n < 2 ^ width) }
{
    if wraps(flags, width, exact, fits) {
        None
    } else {
        Some((n % size(width)) as u64)
    }
}

/// The sum. None where it must not wrap and does. Asks for a width from 1 to 64, and numbers of it. Cost: constant.
pub fn sum(flags: Flags, width: u32, a: u64, b: u64) -> Option<u64>
    requires at_least { 1 ≤ width }
    requires at_most { width ≤ 64 }
    requires first { a < 2 ^ width }
    requires second { b < 2 ^ width }
    ensures same { result ≡ sum_of flags width a b }
    ensures number { IfSome result (λ n. n < 2 ^ width) }
{
    let exact = plus(signed_value(width, a), signed_value(width, b));
    let all = a as u128 + b as u128;
    wrap(flags, width, exact, all < size(width), all)
}

/// The difference. None where it must not wrap and does. Asks for a width from 1 to 64, and numbers of it. Cost:
/// constant.
pub fn difference(flags: Flags, width: u32, a: u64, b: u64) -> Option<u64>
    requires at_least { 1 ≤ width }
    requires at_most { width ≤ 64 }
    requires first { a < 2 ^ width }
    requires second { b < 2 ^ width }
    ensures same { result ≡ difference_of flags width a b }
    ensures number { IfSome result (λ n. n < 2 ^ width) }
{
    let exact = minus(signed_value(width, a), signed_value(width, b));
    let all = a as u128 + (size(width) - b as u128);
    wrap(flags, width, exact, b <= a, all)
}

/// The product. None where it must not wrap and does. Asks for a width from 1 to 64, and numbers of it. Cost:
/// constant.
pub fn product(flags: Flags, width: u32, a: u64, b: u64) -> Option<u64>
    requires at_least { 1 ≤ width }
    requires at_most { width ≤ 64 }
    requires first { a < 2 ^ width }
    requires second { b < 2 ^ width }
    ensures same { result ≡ product_of flags width a b }
    ensures number { IfSome result (λ n. n < 2 ^ width) }
{
    let exact = times(signed_value(width, a), signed_value(width, b));
    let all = a as u128 * b as u128;
    wrap(flags, width, exact, all < size(width), all)
}
