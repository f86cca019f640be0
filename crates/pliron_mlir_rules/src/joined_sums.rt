//! Sums with two constants.
ghost use Rattle.std.specs.Prelude.{◌≡◌, ◌≤◌, ◌<◌, ◌^◌, IfOk, IfSome, IsOkUnless};
ghost use Rattle.pliron_mlir_rules.specs.MlirRules.{have_one_sign as have_one_sign_by, join_sums as join_sums_by};
ghost use Rattle.pliron_mlir_rules.specs.MlirRules.{joined_sum as joined_sum_by, wraps_of as wraps_of_by};

use crate::powers::arithmetic_with;
use crate::seen::{known_bits, operation_alike};
use pliron_bits::{BinaryOperator, Flags, signed_value, sum};
use pliron_dialect_mlir::{Arithmetic, counted_bits};
use pliron_laws::OptError;
use pliron_rewrite_rules::{Operand, Term};
use std::alloc::Global;

// Whether neither is negative, or neither positive.
fn have_one_sign(first: i128, second: i128) -> bool
    ensures { result ≡ have_one_sign_by first second }
{
    (0 <= first && 0 <= second) || (first <= 0 && second <= 0)
}

// The sum of two constants of so many bits, where it wraps no more than the flags let it, and the two have one sign if
// that counts.
fn joined_sum(flags: Flags, bits: u32, first: u64, second: u64) -> Option<u64>
    requires at_least { 1 ≤ bits }
    requires at_most { bits ≤ 64 }
    requires first { first < 2 ^ bits }
    requires second { second < 2 ^ bits }
    ensures { result ≡ joined_sum_by flags bits first second }
{
    let one_sign = have_one_sign(signed_value(bits, first), signed_value(bits, second));
    if flags.no_signed_wrap && !one_sign {
        None
    } else {
        sum(flags, bits, first, second)
    }
}

// What the flags promise of how results wrap.
fn wraps_of(flags: Flags) -> Flags
    ensures { result ≡ wraps_of_by flags }
{
    Flags {
        no_signed_wrap: flags.no_signed_wrap,
        no_unsigned_wrap: flags.no_unsigned_wrap,
        exact: false,
        disjoint: false,
        nonnegative: false,
    }
}

// `(x + c) + d` is `x + (c + d)`, where the two promise the same of how they wrap, and `x + (c + d)` may.
pub(crate) fn join_sums(
    alloc: Global,
    outer: Option<Arithmetic>,
    a: &Operand,
    b: &Operand,
) -> Result<Option<Term>, OptError>
    ensures ok { IfOk result (λ term. term ≡ join_sums_by outer a.now b.now) }
    ensures memory { IsOkUnless result OptError.Memory }
{
    let Some(outer) = outer else {
        return Ok(None);
    };
    let operator = BinaryOperator::Add;
    let Some(inner) = operation_alike(operator, outer.flags, outer.width, a) else {
        return Ok(None);
    };
    let Some(second) = known_bits(outer.width, b) else {
        return Ok(None);
    };
    let bits = counted_bits(outer.width);
    let Some(constant) = joined_sum(outer.flags, bits, inner.constant, second) else {
        return Ok(None);
    };
    let joined = Arithmetic {
        width: outer.width,
        flags: wraps_of(outer.flags),
    };
    let term = arithmetic_with(alloc, operator, joined, inner.value, constant)?;
    Ok(Some(term))
}
