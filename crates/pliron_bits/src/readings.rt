//! Readings of numbers of a width.
ghost use Rattle.std.specs.Prelude.{◌≡◌, ◌≤◌, ◌<◌, ◌^◌, ◌-◌, pos, unsigned_abs};
ghost use Rattle.pliron_bits.specs.Numbers.{signed_value as signed_of, is_signed as is_signed_of, bits_of};

/// Two to the width. Asks for a width of at most 64. Cost: constant.
pub fn size(width: u32) -> u128
    requires { width ≤ 64 }
    ensures same { result ≡ 2 ^ width }
    ensures small { result ≤ 2 ^ 64 }
{
    1u128 << width
}

/// The number as a signed one. Asks for a width from 1 to 64, and a number of it. Cost: constant.
pub fn signed_value(width: u32, n: u64) -> i128
    requires at_least { 1 ≤ width }
    requires at_most { width ≤ 64 }
    requires number { n < 2 ^ width }
    ensures same { result ≡ signed_of width n }
    ensures small { unsigned_abs result ≤ 2 ^ (width - 1) }
{
    if (n as u128) < size(width - 1) {
        n as i128
    } else {
        n as i128 - size(width) as i128
    }
}

/// Whether the signed numbers of the width reach so far. Asks for a width from 1 to 64. Cost: constant.
pub fn is_signed(width: u32, n: i128) -> bool
    requires at_least { 1 ≤ width }
    requires at_most { width ≤ 64 }
    ensures { result ≡ is_signed_of width n }
{
    let half = size(width - 1) as i128;
    -half <= n && n < half
}

/// The number of the width that differs from the whole number by a multiple of two to the width. Asks for a width of
/// at most 64. Cost: constant.
pub fn bits(width: u32, n: i128) -> u64
    requires { width ≤ 64 }
    ensures same { result ≡ bits_of width n }
    ensures number { result < 2 ^ width }
{
    n.rem_euclid(size(width) as i128) as u64
}
