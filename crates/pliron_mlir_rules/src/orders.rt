//! Constants that stand second.
ghost use Rattle.std.specs.Prelude.{◌≡◌, [], ◌∷◌, IfOk, IsOkUnless};
ghost use Rattle.pliron_rewrite_rules.specs.declared.term.Atom.TheVariants.{Named};
ghost use Rattle.pliron_mlir_rules.specs.MlirRules.{is_first_known as is_first_known_by, swap_comparison as swap_comparison_by};
ghost use Rattle.pliron_mlir_rules.specs.MlirRules.{swap_constant as swap_constant_by, swap_operands as swap_operands_by};
ghost use Rattle.pliron_mlir_rules.specs.MlirRules.{swapped_of as swapped_of_by};

use crate::seen::{known_bits, operand_value};
use pliron_bits::{BinaryOperator, Predicate};
use pliron_core::{Head, Value};
use pliron_dialect_mlir::{Arithmetic, Comparison};
use pliron_laws::OptError;
use pliron_rewrite_rules::{Atom, Atoms, Operand, Term};
use std::alloc::Global;

// The predicate for the operands in the other order.
fn swapped_of(predicate: Predicate) -> Predicate
    ensures { result ≡ swapped_of_by predicate }
{
    match predicate {
        Predicate::Equal => Predicate::Equal,
        Predicate::NotEqual => Predicate::NotEqual,
        Predicate::SignedLess => Predicate::SignedGreater,
        Predicate::SignedLessEqual => Predicate::SignedGreaterEqual,
        Predicate::SignedGreater => Predicate::SignedLess,
        Predicate::SignedGreaterEqual => Predicate::SignedLessEqual,
        Predicate::UnsignedLess => Predicate::UnsignedGreater,
        Predicate::UnsignedLessEqual => Predicate::UnsignedGreaterEqual,
        Predicate::UnsignedGreater => Predicate::UnsignedLess,
        Predicate::UnsignedGreaterEqual => Predicate::UnsignedLessEqual,
    }
}

// Whether the first is known, and the second isn't.
fn is_first_known(first: Option<u64>, second: Option<u64>) -> bool
    ensures { result ≡ is_first_known_by first second }
{
    match (first, second) {
        (Some(_), None) => true,
        _ => false,
    }
}

// These two values, as atoms.
pub(crate) fn two_values(alloc: Global, first: Value, second: Value) -> Result<Atoms, OptError>
    ensures ok { IfOk result (λ atoms. atoms ≡ Named first ∷ Named second ∷ []) }
    ensures memory { IsOkUnless result OptError.Memory }
{
    let mut atoms = Vec::new(alloc);
    atoms.push(Atom::Named(first))?;
    atoms.push(Atom::Named(second))?;
    Ok(Atoms::new(atoms))
}

// `icmp p c x` is `icmp swapped-p x c`.
pub(crate) fn swap_comparison(
    alloc: Global,
    comparison: Option<Comparison>,
    a: &Operand,
    b: &Operand,
) -> Result<Option<Term>, OptError>
    ensures ok { IfOk result (λ term. term ≡ swap_comparison_by comparison a.now b.now) }
    ensures memory { IsOkUnless result OptError.Memory }
{
    let Some(comparison) = comparison else {
        return Ok(None);
    };
    let width = comparison.width;
    if !is_first_known(known_bits(width, a), known_bits(width, b)) {
        return Ok(None);
    }
    let swapped = Comparison {
        width,
        predicate: swapped_of(comparison.predicate),
    };
    let head = swapped.head(alloc)?;
    let atoms = two_values(alloc, operand_value(b), operand_value(a))?;
    Ok(Some(Term::Make(head, atoms)))
}

// `c op x` is `x op c`.
fn swap_operands(
    alloc: Global,
    operator: BinaryOperator,
    arithmetic: Option<Arithmetic>,
    a: &Operand,
    b: &Operand,
) -> Result<Option<Term>, OptError>
    ensures ok { IfOk result (λ term. term ≡ swap_operands_by operator arithmetic a.now b.now) }
    ensures memory { IsOkUnless result OptError.Memory }
{
    let Some(arithmetic) = arithmetic else {
        return Ok(None);
    };
    let width = arithmetic.width;
    if !is_first_known(known_bits(width, a), known_bits(width, b)) {
        return Ok(None);
    }
    let head = arithmetic.head(operator, alloc)?;
    let atoms = two_values(alloc, operand_value(b), operand_value(a))?;
    Ok(Some(Term::Make(head, atoms)))
}

// That where the order of operands doesn't matter.
pub(crate) fn swap_constant(
    alloc: Global,
    head: &Head,
    a: &Operand,
    b: &Operand,
) -> Result<Option<Term>, OptError>
    ensures ok { IfOk result (λ term. term ≡ swap_constant_by head.now a.now b.now) }
    ensures memory { IsOkUnless result OptError.Memory }
{
    let operator = BinaryOperator::Add;
    let sum = Arithmetic::of_head(operator, head);
    if let Some(term) = swap_operands(alloc, operator, sum, a, b)? {
        return Ok(Some(term));
    }
    let operator = BinaryOperator::And;
    let common = Arithmetic::of_head(operator, head);
    if let Some(term) = swap_operands(alloc, operator, common, a, b)? {
        return Ok(Some(term));
    }
    let operator = BinaryOperator::Or;
    let either = Arithmetic::of_head(operator, head);
    if let Some(term) = swap_operands(alloc, operator, either, a, b)? {
        return Ok(Some(term));
    }
    let operator = BinaryOperator::Xor;
    let exclusion = Arithmetic::of_head(operator, head);
    if let Some(term) = swap_operands(alloc, operator, exclusion, a, b)? {
        return Ok(Some(term));
    }
    let operator = BinaryOperator::Multiply;
    let product = Arithmetic::of_head(operator, head);
    swap_operands(alloc, operator, product, a, b)
}
