//! Differences from constants, as sums.
ghost use Rattle.std.specs.Prelude.{◌≡◌, ◌≤◌, IfOk, IsOkUnless};
ghost use Rattle.pliron_mlir_rules.specs.MlirRules.{if_signed as if_signed_by, may_negate as may_negate_by};
ghost use Rattle.pliron_mlir_rules.specs.MlirRules.{subtract_constant as subtract_constant_by, sum_with as sum_with_by};

use crate::seen::{known_bits, operand_value};
use pliron_bits::{BinaryOperator, Flags, size};
use pliron_core::{AttrObj, Value};
use pliron_dialect_mlir::{Arithmetic, counted_bits, number};
use pliron_laws::OptError;
use pliron_rewrite_rules::{Atom, Atoms, Operand, Term};
use std::alloc::Global;

// A promise of signs, or none.
fn if_signed(signed: bool) -> Flags
    ensures { result ≡ if_signed_by signed }
{
    Flags {
        no_signed_wrap: signed,
        no_unsigned_wrap: false,
        exact: false,
        disjoint: false,
        nonnegative: false,
    }
}

// The sum of the value and a constant of this width.
fn sum_with(
    alloc: Global,
    width: u32,
    signed: bool,
    value: Value,
    constant: u64,
) -> Result<Term, OptError>
    requires { width ≤ 65 }
    ensures ok { IfOk result (λ term. term ≡ sum_with_by width signed value constant) }
    ensures memory { IsOkUnless result OptError.Memory }
{
    let sum = Arithmetic {
        width,
        flags: if_signed(signed),
    };
    let head = sum.head(BinaryOperator::Add, alloc)?;
    let mut atoms = Vec::new(alloc);
    atoms.push(Atom::Named(value))?;
    atoms.push(Atom::Constant(AttrObj::Int(number(width, constant))))?;
    Ok(Term::Make(head, Atoms::new(atoms)))
}

// Whether adding -c promises of signs what subtracting c does.
fn may_negate(difference: Arithmetic, constant: u64) -> bool
    requires { (1 ≤ difference.width) × (difference.width ≤ 65) }
    ensures same { result ≡ may_negate_by difference constant }
{
    let half = size(counted_bits(difference.width) - 1);
    let is_least = constant as u128 == half;
    let flags = difference.flags;
    0 < constant && !flags.no_unsigned_wrap && !(flags.no_signed_wrap && is_least)
}

// `x - c` is `x + -c`.
pub(crate) fn subtract_constant(
    alloc: Global,
    difference: Option<Arithmetic>,
    a: &Operand,
    b: &Operand,
) -> Result<Option<Term>, OptError>
    ensures ok { IfOk result (λ term. term ≡ subtract_constant_by difference a.now b.now) }
    ensures memory { IsOkUnless result OptError.Memory }
{
    let Some(difference) = difference else {
        return Ok(None);
    };
    let width = difference.width;
    let Some(constant) = known_bits(width, b) else {
        return Ok(None);
    };
    if !may_negate(difference, constant) {
        return Ok(None);
    }
    let negated = (size(counted_bits(width)) - constant as u128) as u64;
    let signed = difference.flags.no_signed_wrap;
    Ok(Some(sum_with(alloc, width, signed, operand_value(a), negated)?))
}
