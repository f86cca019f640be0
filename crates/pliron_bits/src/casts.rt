//! Numbers at another width.
ghost use Rattle.std.specs.Prelude.{◌≡◌, ◌≤◌, ◌<◌, ◌^◌, IfSome};
ghost use Rattle.pliron_bits.specs.Arithmetic.{zero_extended, sign_extended, truncation};

use crate::flags::Flags;
use crate::readings::{bits, signed_value, size};
use crate::wrapping::wrap;

/// The number at a width that isn't less. None where it must not be negative and is. Asks for a width from 1 to 64.
/// Cost: constant.
pub fn zero_extend(flags: Flags, width: u32, a: u64) -> Option<u64>
    requires at_least { 1 ≤ width }
    requires at_most { width ≤ 64 }
    ensures { result ≡ zero_extended flags width a }
{
    if flags.nonnegative && size(width - 1) <= a as u128 {
        None
    } else {
        Some(a)
    }
}

/// The number at a width that isn't less, where it is read as signed. Asks for widths from 1 to 64, and a number of
/// the first one. Cost: constant.
pub fn sign_extend(width: u32, to: u32, a: u64) -> Option<u64>
    requires at_least { 1 ≤ width }
    requires at_most { width ≤ 64 }
    requires target { to ≤ 64 }
    requires number { a < 2 ^ width }
    ensures same { result ≡ sign_extended width to a }
    ensures below { IfSome result (λ n. n < 2 ^ to) }
{
    Some(bits(to, signed_value(width, a)))
}

/// What is left of the number at a width that isn't greater. None where it must not wrap and does. Asks for widths
/// from 1 to 64, and a number of the first one. Cost: constant.
pub fn truncate(flags: Flags, width: u32, to: u32, a: u64) -> Option<u64>
    requires at_least { 1 ≤ width }
    requires at_most { width ≤ 64 }
    requires target { 1 ≤ to }
    requires narrow { to ≤ 64 }
    requires number { a < 2 ^ width }
    ensures same { result ≡ truncation flags width to a }
    ensures below { IfSome result (λ n. n < 2 ^ to) }
{
    let all = a as u128;
    wrap(flags, to, signed_value(width, a), all < size(to), all)
}
