//! Operations on bits with two constants, and all with two.
ghost use Rattle.std.specs.Prelude.{◌≡◌, ◌≤◌, IfOk, IsOkUnless};
ghost use Rattle.pliron_mlir_rules.specs.MlirRules.{absorbs as absorbs_by, join_constants as join_constants_by, joined_bits as joined_bits_by};
ghost use Rattle.pliron_mlir_rules.specs.MlirRules.{operator_of as operator_of_by, rules_of_constants as rules_of_constants_by};

use crate::joined_sums::join_sums;
use crate::powers::arithmetic_with;
use crate::seen::{constant_operation, known_bits, promises_nothing};
use pliron_bits::{BinaryOperator, Flags, size};
use pliron_core::Head;
use pliron_dialect_mlir::{Arithmetic, counted_bits};
use pliron_laws::OptError;
use pliron_rewrite_rules::{Operand, Term};
use std::alloc::Global;

// An operator of which two constants are one, bit by bit.
#[derive(Clone, Copy)]
enum AssociativeOperator {
    Conjunction,
    Disjunction,
    Exclusion,
}

// Its name among all.
fn operator_of(operator: AssociativeOperator) -> BinaryOperator
    ensures { result ≡ operator_of_by operator }
{
    match operator {
        AssociativeOperator::Conjunction => BinaryOperator::And,
        AssociativeOperator::Disjunction => BinaryOperator::Or,
        AssociativeOperator::Exclusion => BinaryOperator::Xor,
    }
}

// The one constant that two are.
fn joined_bits(operator: AssociativeOperator, a: u64, b: u64) -> u64
    ensures { result ≡ joined_bits_by operator a b }
{
    match operator {
        AssociativeOperator::Conjunction => a & b,
        AssociativeOperator::Disjunction => a | b,
        AssociativeOperator::Exclusion => a ^ b,
    }
}

// Whether an operation with this constant gives the constant, whatever its other operand is.
fn absorbs(operator: AssociativeOperator, bits: u32, constant: u64) -> bool
    requires { bits ≤ 64 }
    ensures { result ≡ absorbs_by operator bits constant }
{
    match operator {
        AssociativeOperator::Conjunction => constant == 0,
        AssociativeOperator::Disjunction => constant as u128 == size(bits) - 1,
        AssociativeOperator::Exclusion => false,
    }
}

// `(x op c) op d` is `x op (c op d)`, unless that constant absorbs what is no number.
fn join_constants(
    alloc: Global,
    operator: AssociativeOperator,
    head: &Head,
    a: &Operand,
    b: &Operand,
) -> Result<Option<Term>, OptError>
    ensures ok { IfOk result (λ term. term ≡ join_constants_by operator head.now a.now b.now) }
    ensures memory { IsOkUnless result OptError.Memory }
{
    let name = operator_of(operator);
    let Some(outer) = Arithmetic::of_head(name, head) else {
        return Ok(None);
    };
    if !promises_nothing(outer.flags) {
        return Ok(None);
    }
    let Some(inner) = constant_operation(name, outer.width, a) else {
        return Ok(None);
    };
    let Some(second) = known_bits(outer.width, b) else {
        return Ok(None);
    };
    let bits = counted_bits(outer.width);
    let constant = joined_bits(operator, inner.constant, second);
    if absorbs(operator, bits, constant) {
        return Ok(None);
    }
    let joined = Arithmetic {
        width: outer.width,
        flags: Flags::NONE,
    };
    let term = arithmetic_with(alloc, name, joined, inner.value, constant)?;
    Ok(Some(term))
}

// What these rules answer for an operation with this head.
pub(crate) fn rules_of_constants(
    alloc: Global,
    head: &Head,
    a: &Operand,
    b: &Operand,
) -> Result<Option<Term>, OptError>
    ensures ok { IfOk result (λ term. term ≡ rules_of_constants_by head.now a.now b.now) }
    ensures memory { IsOkUnless result OptError.Memory }
{
    if let Some(term) = join_sums(alloc, Arithmetic::of_head(BinaryOperator::Add, head), a, b)? {
        return Ok(Some(term));
    }
    if let Some(term) = join_constants(alloc, AssociativeOperator::Conjunction, head, a, b)? {
        return Ok(Some(term));
    }
    if let Some(term) = join_constants(alloc, AssociativeOperator::Disjunction, head, a, b)? {
        return Ok(Some(term));
    }
    join_constants(alloc, AssociativeOperator::Exclusion, head, a, b)
}
