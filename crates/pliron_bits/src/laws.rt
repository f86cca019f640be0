//! What the readings of numbers keep, as calls that do nothing when they run.
ghost use Rattle.std.specs.Prelude.{◌≡◌, ℕ, ℤ, ◌<◌, ◌≤◌, ◌+◌, ◌-◌, ◌%◌, ◌^◌, ◌+ℤ◌, ◌-ℤ◌, IsTrue};
ghost use Rattle.pliron_bits.specs.Numbers.{signed_value, is_signed, bits_of};

/// The bits of a number that is read as signed are that number, and a whole number that the signed ones reach is what
/// its bits are, read as signed. Cost: constant.
pub fn readings_are_inverse()
    ensures bits { (width n : ℕ) → n < 2 ^ width → bits_of width (signed_value width n) ≡ n }
    ensures signed { (width : ℕ) (z : ℤ) → 1 ≤ width → IsTrue (is_signed width z) → signed_value width (bits_of width z)
        ≡ z }
{}

/// Sums and differences of numbers read as signed have the bits of the unsigned ones. Cost: constant.
pub fn signed_results_agree()
    ensures sums { (width a b : ℕ) → bits_of width (signed_value width a +ℤ signed_value width b) ≡ (a + b) % 2 ^
        width }
    ensures differences { (width a b : ℕ) → b < 2 ^ width → bits_of width (signed_value width a -ℤ signed_value width b)
        ≡ (a + (2 ^ width - b)) % 2 ^ width }
{}
