//! Shifts.
ghost use Rattle.std.specs.Prelude.{◌≡◌, ◌≤◌, ◌<◌, ◌^◌, IfSome};
ghost use Rattle.pliron_bits.specs.Arithmetic.{shifted_left, shift_fails as shift_fails_by, logical_shift as logical_shift_of, arithmetic_shift as arithmetic_shift_of};

use crate::flags::Flags;
use crate::integers::{floor, times};
use crate::readings::{bits, signed_value, size};
use crate::wrapping::wrap;

/// The number shifted to the left: its product with two to the second one. None where the second one is the width or
/// more, and where it must not wrap and does. Asks for a width from 1 to 64, and numbers of it. Cost: constant.
pub fn shift_left(flags: Flags, width: u32, a: u64, b: u64) -> Option<u64>
    requires at_least { 1 ≤ width }
    requires at_most { width ≤ 64 }
    requires first { a < 2 ^ width }
    requires second { b < 2 ^ width }
    ensures same { result ≡ shifted_left flags width a b }
    ensures number { IfSome result (λ n. n < 2 ^ width) }
{
    if b < width as u64 {
        let factor = size(b as u32);
        let exact = times(signed_value(width, a), factor as i128);
        let all = a as u128 * factor;
        wrap(flags, width, exact, all < size(width), all)
    } else {
        None
    }
}

// Whether a shift to the right has no meaning.
fn shift_fails(flags: Flags, width: u32, a: u64, b: u64) -> bool
    requires { width ≤ 64 }
    ensures { result ≡ shift_fails_by flags width a b }
{
    b >= width as u64 || (flags.exact && a as u128 % size(b as u32) != 0)
}

/// The number shifted to the right: its quotient by two to the second one, which rounds down. None where the second one
/// is the width or more, and where there is a remainder and the quotient has to be exact. Asks for a width from 1 to
/// 64, and numbers of it. Cost: constant.
pub fn logical_shift_right(flags: Flags, width: u32, a: u64, b: u64) -> Option<u64>
    requires at_least { 1 ≤ width }
    requires at_most { width ≤ 64 }
    requires first { a < 2 ^ width }
    requires second { b < 2 ^ width }
    ensures same { result ≡ logical_shift_of flags width a b }
    ensures number { IfSome result (λ n. n < 2 ^ width) }
{
    if shift_fails(flags, width, a, b) {
        None
    } else {
        Some((a as u128 / size(b as u32)) as u64)
    }
}

/// The number, read as signed, shifted to the right: its quotient by two to the second one, which rounds down. None
/// where the second one is the width or more, and where there is a remainder and the quotient has to be exact. Asks for
/// a width from 1 to 64, and numbers of it. Cost: constant.
pub fn arithmetic_shift_right(flags: Flags, width: u32, a: u64, b: u64) -> Option<u64>
    requires at_least { 1 ≤ width }
    requires at_most { width ≤ 64 }
    requires first { a < 2 ^ width }
    requires second { b < 2 ^ width }
    ensures same { result ≡ arithmetic_shift_of flags width a b }
    ensures number { IfSome result (λ n. n < 2 ^ width) }
{
    if shift_fails(flags, width, a, b) {
        None
    } else {
        let quotient = floor(signed_value(width, a), size(b as u32) as i128);
        Some(bits(width, quotient))
    }
}
