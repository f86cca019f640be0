//! What an operation promises of its operands and its result.
ghost use Rattle.std.specs.Prelude.{◌≡◌, ◌≤◌, ◌<◌};
ghost use Rattle.pliron_bits.specs.Flags.{flag_weight as weight_of, number_of_flags, flags_of_number};

/// What an operation promises: where it doesn't hold, the answer has no meaning. An operation heeds only the flags that
/// it has in LLVM.
#[derive(Clone, Copy, Debug, PartialEq, Eq)]
pub struct Flags {
    /// The exact result, read as signed, is a number of the width (`nsw`).
    pub no_signed_wrap: bool,
    /// The exact result, read as unsigned, is a number of the width (`nuw`).
    pub no_unsigned_wrap: bool,
    /// A quotient has no remainder, a shift to the right loses no bit (`exact`).
    pub exact: bool,
    /// The operands have no common bit (`disjoint`).
    pub disjoint: bool,
    /// The operand is not negative (`nneg`).
    pub nonnegative: bool,
}

impl Flags {
    /// No promise.
    pub const NONE: Flags = Flags {
        no_signed_wrap: false,
        no_unsigned_wrap: false,
        exact: false,
        disjoint: false,
        nonnegative: false,
    };

    /// The flags as a number below 32: the sum of 1 for the first one that is set, 2 for the second, 4, 8 and 16 for
    /// the others. Cost: constant.
    pub fn number(self) -> u32
        ensures same { result ≡ number_of_flags self }
        ensures below { result < 32 }
    {
        let wraps = weight(self.no_signed_wrap, 1) + weight(self.no_unsigned_wrap, 2);
        let others = weight(self.exact, 4) + weight(self.disjoint, 8);
        wraps + others + weight(self.nonnegative, 16)
    }

    /// The flags with this number; what is 32 or more in it counts nothing. Cost: constant.
    pub fn from_number(number: u128) -> Flags
        ensures { result ≡ flags_of_number number }
    {
        Flags {
            no_signed_wrap: number % 2 == 1,
            no_unsigned_wrap: number / 2 % 2 == 1,
            exact: number / 4 % 2 == 1,
            disjoint: number / 8 % 2 == 1,
            nonnegative: number / 16 % 2 == 1,
        }
    }
}

// The number where the flag is set, else 0.
fn weight(flag: bool, number: u32) -> u32
    requires { number ≤ 16 }
    ensures same { result ≡ weight_of flag number }
    ensures small { result ≤ number }
{
    if flag { number } else { 0 }
}
