//! The less and the greater of two numbers.
ghost use Rattle.std.specs.Prelude.{◌≡◌, ◌≤◌, ◌<◌, ◌^◌};
ghost use Rattle.pliron_bits.specs.Arithmetic.{signed_less as signed_less_by, unsigned_minimum as unsigned_minimum_of, unsigned_maximum as unsigned_maximum_of, signed_minimum as signed_minimum_of, signed_maximum as signed_maximum_of};

use crate::readings::signed_value;

/// Whether the first number is less, read as signed. Asks for a width from 1 to 64, and numbers of it. Cost: constant.
pub fn signed_less(width: u32, a: u64, b: u64) -> bool
    requires at_least { 1 ≤ width }
    requires at_most { width ≤ 64 }
    requires first { a < 2 ^ width }
    requires second { b < 2 ^ width }
    ensures { result ≡ signed_less_by width a b }
{
    signed_value(width, a) < signed_value(width, b)
}

/// The less of the two. Cost: constant.
pub fn unsigned_minimum(a: u64, b: u64) -> Option<u64>
    ensures { result ≡ unsigned_minimum_of a b }
{
    Some(a.min(b))
}

/// The greater of the two. Cost: constant.
pub fn unsigned_maximum(a: u64, b: u64) -> Option<u64>
    ensures { result ≡ unsigned_maximum_of a b }
{
    Some(a.max(b))
}

/// The less of the two, read as signed. Asks for a width from 1 to 64, and numbers of it. Cost: constant.
pub fn signed_minimum(width: u32, a: u64, b: u64) -> Option<u64>
    requires at_least { 1 ≤ width }
    requires at_most { width ≤ 64 }
    requires first { a < 2 ^ width }
    requires second { b < 2 ^ width }
    ensures { result ≡ signed_minimum_of width a b }
{
    let least = if signed_less(width, b, a) { b } else { a };
    Some(least)
}

/// The greater of the two, read as signed. Asks for a width from 1 to 64, and numbers of it. Cost: constant.
pub fn signed_maximum(width: u32, a: u64, b: u64) -> Option<u64>
    requires at_least { 1 ≤ width }
    requires at_most { width ≤ 64 }
    requires first { a < 2 ^ width }
    requires second { b < 2 ^ width }
    ensures { result ≡ signed_maximum_of width a b }
{
    let greatest = if signed_less(width, a, b) { b } else { a };
    Some(greatest)
}
