//! Data: integers that say their type, and other constants.
ghost use Rattle.std.specs.Prelude.{◌≡◌, ◌≤◌, ◌<◌, ◌^◌, Some, IfSome, MatchOption, IsTrue};
ghost use Rattle.pliron_dialect_mlir.specs.Data.{is_width as is_width_of, bits_of_width, number as number_of, bits_at as bits_in, width_in as width_said_by, other_constant as other_constant_of, form_in as form_said_by, truth as truth_of, IsInteger, IsValue, FitsWidth};

use pliron_bits::size;

/// The width of `index`, which counts 64 bits.
pub const INDEX: u32 = 65;

// Two to the 64.
const ABOVE: u128 = 18_446_744_073_709_551_616;

/// Whether it is a width: from 1 to 64, or that of `index`. Cost: constant.
pub fn is_width(width: u32) -> bool
    ensures same { result ≡ is_width_of width }
    ensures within { IsTrue result → (1 ≤ width) × (width ≤ 65) }
{
    1 <= width && width <= INDEX
}

/// How many bits the width counts: 1 to 64. Cost: constant.
pub fn counted_bits(width: u32) -> u32
    ensures same { result ≡ bits_of_width width }
    ensures some { 1 ≤ width → 1 ≤ result }
    ensures most { width ≤ 65 → result ≤ 64 }
{
    if width == INDEX { 64 } else { width }
}

/// The datum of an integer of this width. Asks for a width of at most that of `index`. Cost: constant.
pub fn number(width: u32, bits: u64) -> i128
    requires { width ≤ 65 }
    ensures { result ≡ number_of width bits }
{
    (width as u128 * ABOVE + bits as u128) as i128
}

/// The bits of the datum, where it is an integer of this width. Cost: constant.
pub fn bits_at(width: u32, datum: i128) -> Option<u64>
    ensures same { result ≡ bits_in width datum }
    ensures below { IfSome result (λ bits. bits < 2 ^ bits_of_width width) }
    ensures width { IfSome result (λ bits. (1 ≤ width) × (width ≤ 65)) }
{
    if width < 1 || width > INDEX || datum < 0 {
        return None;
    }
    let all = datum as u128;
    let bits = all % ABOVE;
    if all / ABOVE == width as u128 && bits < size(counted_bits(width)) {
        Some(bits as u64)
    } else {
        None
    }
}

// The datum of the integer of this width with these bits.
fn integer_with(width: u32, bits: u64) -> i128
    requires at_least { 1 ≤ width }
    requires at_most { width ≤ 65 }
    requires below { bits < 2 ^ bits_of_width width }
    ensures { bits_in width result ≡ Some bits }
{
    number(width, bits)
}

// The bits of this value at this width, where it fits.
fn bits_of_value(width: u32, value: i128) -> Option<u64>
    requires at_least { 1 ≤ width }
    requires at_most { width ≤ 65 }
    ensures { MatchOption result (¬ FitsWidth width value) (λ bits. (bits < 2 ^ bits_of_width width)
        × IsValue width value bits) }
{
    let values = size(counted_bits(width)) as i128;
    if value < 0 {
        if value < -(values / 2) {
            None
        } else {
            Some((value + values) as u64)
        }
    } else if value < values {
        Some(value as u64)
    } else {
        None
    }
}

/// The datum of this value at this width, where it fits: it is at least the least number with a sign, and at most the
/// greatest one without. Asks for a width. Cost: constant.
pub fn integer_datum(width: u32, value: i128) -> Option<i128>
    requires at_least { 1 ≤ width }
    requires at_most { width ≤ 65 }
    ensures { MatchOption result (¬ FitsWidth width value) (IsInteger width value) }
{
    match bits_of_value(width, value) {
        Some(bits) => Some(integer_with(width, bits)),
        None => None,
    }
}
