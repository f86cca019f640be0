//! The dialect.
use crate::kind::BenchKind;
use pliron_dialect::ByRoles;

/// A dialect of sixteen kinds. An operation that needs a number from a datum takes a whole number wrapped to 64 signed
/// bits, and 0 for any other datum or a missing one.
///
/// | Kind | What it does | Side effects | Folds |
/// |---|---|---|---|
/// | `mod` | gives nothing; its region is without SSA dominance and never invoked | no answer | no |
/// | `func` | invokes its region once with its inputs, and ends with the invocation's values | no answer | no |
/// | `const` | gives its number | no | to it; stays in place |
/// | `add`, `mul` | give the wrapped sum, product | no | where both are known; a product also where one is 0 |
/// | `div` | gives the quotient truncated toward zero; traps where the divisor is 0, or the quotient doesn't fit | yes | where both are known and it doesn't trap |
/// | `read` | asks the environment, and gives the answer | yes | no |
/// | `print` | emits its operand, and gives nothing | yes | no |
/// | `pair` | gives 1 and 2 | no | no |
/// | `sink` | gives nothing, of any operands | no | no |
/// | `scope` | invokes its region once with its operands, and gives nothing | yes | no |
/// | `box` | gives nothing; its region is never invoked | no | no |
/// | `br` | jumps to its block with its operands | no answer | no |
/// | `cbr` | jumps to its first block if its first operand isn't 0, else to its second, with that edge's operands | no answer | as a branch |
/// | `ret` | leaves the region with its operands | no answer | no |
/// | `fork` | jumps as `cbr` does, and each argument of the block receives its operand | no answer | no |
///
/// An invocation passes as many values as the entry has arguments: the inputs or operands are cut, or filled
/// with 0. A `cbr` counts the values of its first edge in its attribute.
pub type Bench = ByRoles<BenchKind>;
