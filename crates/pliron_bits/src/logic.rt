//! Operations on bits.
ghost use Rattle.std.specs.Prelude.{◌≡◌};
ghost use Rattle.pliron_bits.specs.Arithmetic.{conjunction, disjunction, exclusion};

use crate::flags::Flags;

/// The common bits. Cost: constant.
pub fn and(a: u64, b: u64) -> Option<u64>
    ensures { result ≡ conjunction a b }
{
    Some(a & b)
}

/// The bits of both. None where they must have no common bit and have one. Cost: constant.
pub fn or(flags: Flags, a: u64, b: u64) -> Option<u64>
    ensures { result ≡ disjunction flags a b }
{
    if flags.disjoint && a & b != 0 {
        None
    } else {
        Some(a | b)
    }
}

/// The bits of one of them alone. Cost: constant.
pub fn xor(a: u64, b: u64) -> Option<u64>
    ensures { result ≡ exclusion a b }
{
    Some(a ^ b)
}
