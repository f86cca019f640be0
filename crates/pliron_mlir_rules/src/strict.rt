//! Comparisons with constants, made strict.
ghost use Rattle.std.specs.Prelude.{◌≡◌, ◌≤◌, ◌<◌, ◌^◌, IfOk, IsOkUnless};
ghost use Rattle.pliron_dialect_mlir.specs.Data.{bits_of_width};
ghost use Rattle.pliron_mlir_rules.specs.MlirRules.{before_unless as before_unless_by, compare_with as compare_with_by};
ghost use Rattle.pliron_mlir_rules.specs.MlirRules.{compare_strictly as compare_strictly_by, next_unless as next_unless_by};
ghost use Rattle.pliron_mlir_rules.specs.MlirRules.{number_beside as number_beside_by, strict_of as strict_of_by};

use crate::seen::{known_bits, operand_value};
use pliron_bits::{Predicate, size};
use pliron_core::{AttrObj, Value};
use pliron_dialect_mlir::{Comparison, counted_bits, number};
use pliron_laws::OptError;
use pliron_rewrite_rules::{Atom, Atoms, Operand, Term};
use std::alloc::Global;

// The predicate without what is equal.
fn strict_of(predicate: Predicate) -> Predicate
    ensures { result ≡ strict_of_by predicate }
{
    match predicate {
        Predicate::SignedLessEqual => Predicate::SignedLess,
        Predicate::SignedGreaterEqual => Predicate::SignedGreater,
        Predicate::UnsignedLessEqual => Predicate::UnsignedLess,
        Predicate::UnsignedGreaterEqual => Predicate::UnsignedGreater,
        _ => predicate,
    }
}

// The next number of so many bits, unless the number is the last one.
fn next_unless(bits: u32, last: u128, constant: u64) -> Option<u64>
    requires { bits ≤ 64 }
    ensures { result ≡ next_unless_by bits last constant }
{
    if constant as u128 == last {
        return None;
    }
    Some(((constant as u128 + 1) % size(bits)) as u64)
}

// The number of so many bits before this one, unless that is the last one.
fn before_unless(bits: u32, last: u128, constant: u64) -> Option<u64>
    requires { bits ≤ 64 }
    ensures { result ≡ before_unless_by bits last constant }
{
    if constant as u128 == last {
        return None;
    }
    Some(((constant as u128 + (size(bits) - 1)) % size(bits)) as u64)
}

// The number with which the strict predicate compares what this one compares with the constant.
fn number_beside(predicate: Predicate, bits: u32, constant: u64) -> Option<u64>
    requires { (1 ≤ bits) × (bits ≤ 64) }
    ensures { result ≡ number_beside_by predicate bits constant }
{
    match predicate {
        Predicate::SignedLessEqual => next_unless(bits, size(bits - 1) - 1, constant),
        Predicate::SignedGreaterEqual => before_unless(bits, size(bits - 1), constant),
        Predicate::UnsignedLessEqual => next_unless(bits, size(bits) - 1, constant),
        Predicate::UnsignedGreaterEqual => before_unless(bits, 0, constant),
        _ => None,
    }
}

// The comparison of the value with a constant.
pub(crate) fn compare_with(
    alloc: Global,
    comparison: Comparison,
    value: Value,
    constant: u64,
) -> Result<Term, OptError>
    requires { comparison.width ≤ 65 }
    ensures ok { IfOk result (λ term. term ≡ compare_with_by comparison value constant) }
    ensures memory { IsOkUnless result OptError.Memory }
{
    let head = comparison.head(alloc)?;
    let mut atoms = Vec::new(alloc);
    atoms.push(Atom::Named(value))?;
    atoms.push(Atom::Constant(AttrObj::Int(number(comparison.width, constant))))?;
    Ok(Term::Make(head, Atoms::new(atoms)))
}

// `icmp sle x c` is `icmp slt x (c + 1)`, `icmp sge x c` is `icmp sgt x (c - 1)`, and so without signs.
pub(crate) fn compare_strictly(
    alloc: Global,
    comparison: Option<Comparison>,
    a: &Operand,
    b: &Operand,
) -> Result<Option<Term>, OptError>
    ensures ok { IfOk result (λ term. term ≡ compare_strictly_by comparison a.now b.now) }
    ensures memory { IsOkUnless result OptError.Memory }
{
    let Some(comparison) = comparison else {
        return Ok(None);
    };
    let width = comparison.width;
    let Some(constant) = known_bits(width, b) else {
        return Ok(None);
    };
    let beside = number_beside(comparison.predicate, counted_bits(width), constant);
    let Some(beside) = beside else {
        return Ok(None);
    };
    let strict = Comparison {
        width,
        predicate: strict_of(comparison.predicate),
    };
    Ok(Some(compare_with(alloc, strict, operand_value(a), beside)?))
}
