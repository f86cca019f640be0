//! Equations with sums and differences.
ghost use Rattle.std.specs.Prelude.{◌≡◌, IfOk, IsOkUnless};
ghost use Rattle.pliron_mlir_rules.specs.MlirRules.{compare_difference as compare_difference_by, compare_summand as compare_summand_by};
ghost use Rattle.pliron_mlir_rules.specs.MlirRules.{difference_leaves as difference_leaves_by, difference_term as difference_term_by, is_equation as is_equation_by};

use crate::orders::two_values;
use crate::seen::{constant_operation, known_bits, leaf_value, wraps_freely};
use crate::strict::compare_with;
use pliron_bits::{BinaryOperator, Predicate, size};
use pliron_dialect_mlir::{Arithmetic, Comparison, counted_bits};
use pliron_laws::OptError;
use pliron_rewrite_rules::{Leaf, Operand, Term};
use std::alloc::Global;

// Whether the predicate is that of an equation, or says that there is none.
fn is_equation(predicate: Predicate) -> bool
    ensures { result ≡ is_equation_by predicate }
{
    match predicate {
        Predicate::Equal | Predicate::NotEqual => true,
        _ => false,
    }
}

// `icmp eq (x + c) d` is `icmp eq x (d - c)`, and so is `icmp ne`.
pub(crate) fn compare_summand(
    alloc: Global,
    comparison: Option<Comparison>,
    a: &Operand,
    b: &Operand,
) -> Result<Option<Term>, OptError>
    ensures ok { IfOk result (λ term. term ≡ compare_summand_by comparison a.now b.now) }
    ensures memory { IsOkUnless result OptError.Memory }
{
    let Some(comparison) = comparison else {
        return Ok(None);
    };
    let width = comparison.width;
    if !is_equation(comparison.predicate) {
        return Ok(None);
    }
    let Some(sum) = constant_operation(BinaryOperator::Add, width, a) else {
        return Ok(None);
    };
    let Some(constant) = known_bits(width, b) else {
        return Ok(None);
    };
    let whole = size(counted_bits(width));
    let moved = constant as u128 + (whole - sum.constant as u128);
    let rest = (moved % whole) as u64;
    Ok(Some(compare_with(alloc, comparison, sum.value, rest)?))
}

// The comparison of the operands of a difference that may wrap.
fn difference_leaves(
    alloc: Global,
    comparison: Comparison,
    difference: Option<Arithmetic>,
    leaves: &[Leaf],
) -> Result<Option<Term>, OptError>
    ensures ok { IfOk result (λ term. term ≡ difference_leaves_by comparison difference leaves.now) }
    ensures memory { IsOkUnless result OptError.Memory }
{
    let [x, y] = leaves else {
        return Ok(None);
    };
    let Some(difference) = difference else {
        return Ok(None);
    };
    if difference.width != comparison.width || !wraps_freely(difference.flags) {
        return Ok(None);
    }
    let head = comparison.head(alloc)?;
    let atoms = two_values(alloc, leaf_value(x), leaf_value(y))?;
    Ok(Some(Term::Make(head, atoms)))
}

// The comparison of the two of which this operator makes the operand.
fn difference_term(
    alloc: Global,
    operator: BinaryOperator,
    comparison: Comparison,
    operand: &Operand,
) -> Result<Option<Term>, OptError>
    ensures ok { IfOk result (λ term. term ≡ difference_term_by operator comparison operand.now) }
    ensures memory { IsOkUnless result OptError.Memory }
{
    match operand {
        Operand::Plain(_) => Ok(None),
        Operand::Made(_, head, leaves) => difference_leaves(
            alloc,
            comparison,
            Arithmetic::of_head(operator, head),
            leaves.as_slice(),
        ),
    }
}

// `icmp eq (x - y) 0` is `icmp eq x y`, `icmp eq (x xor y) 0` too, and so is `icmp ne`.
pub(crate) fn compare_difference(
    alloc: Global,
    operator: BinaryOperator,
    comparison: Option<Comparison>,
    a: &Operand,
    b: &Operand,
) -> Result<Option<Term>, OptError>
    ensures ok { IfOk result (λ term. term ≡ compare_difference_by operator comparison a.now b.now) }
    ensures memory { IsOkUnless result OptError.Memory }
{
    let Some(comparison) = comparison else {
        return Ok(None);
    };
    let predicate = comparison.predicate;
    if !is_equation(predicate) {
        return Ok(None);
    }
    match known_bits(comparison.width, b) {
        Some(0) => difference_term(alloc, operator, comparison, a),
        _ => Ok(None),
    }
}
