//! Inverted comparisons.
ghost use Rattle.std.specs.Prelude.{◌≡◌, IfOk, IsOkUnless};
ghost use Rattle.pliron_mlir_rules.specs.MlirRules.{inverse_leaves as inverse_leaves_by, inverse_of as inverse_of_by};
ghost use Rattle.pliron_mlir_rules.specs.MlirRules.{inverse_term as inverse_term_by, invert_comparison as invert_comparison_by};

use crate::seen::{known_bits, leaf_value};
use pliron_bits::Predicate;
use pliron_dialect_mlir::{Arithmetic, Comparison};
use pliron_laws::OptError;
use pliron_rewrite_rules::{Atom, Atoms, Leaf, Operand, Term};
use std::alloc::Global;

// What holds where the predicate doesn't.
fn inverse_of(predicate: Predicate) -> Predicate
    ensures { result ≡ inverse_of_by predicate }
{
    match predicate {
        Predicate::Equal => Predicate::NotEqual,
        Predicate::NotEqual => Predicate::Equal,
        Predicate::SignedLess => Predicate::SignedGreaterEqual,
        Predicate::SignedLessEqual => Predicate::SignedGreater,
        Predicate::SignedGreater => Predicate::SignedLessEqual,
        Predicate::SignedGreaterEqual => Predicate::SignedLess,
        Predicate::UnsignedLess => Predicate::UnsignedGreaterEqual,
        Predicate::UnsignedLessEqual => Predicate::UnsignedGreater,
        Predicate::UnsignedGreater => Predicate::UnsignedLessEqual,
        Predicate::UnsignedGreaterEqual => Predicate::UnsignedLess,
    }
}

// The inverse of what an operation with these operands compares.
fn inverse_leaves(
    alloc: Global,
    comparison: Option<Comparison>,
    leaves: &[Leaf],
) -> Result<Option<Term>, OptError>
    ensures ok { IfOk result (λ term. term ≡ inverse_leaves_by comparison leaves.now) }
    ensures memory { IsOkUnless result OptError.Memory }
{
    let [x, y] = leaves else {
        return Ok(None);
    };
    let Some(comparison) = comparison else {
        return Ok(None);
    };
    let inverse = Comparison {
        width: comparison.width,
        predicate: inverse_of(comparison.predicate),
    };
    let head = inverse.head(alloc)?;
    let mut atoms = Vec::new(alloc);
    atoms.push(Atom::Named(leaf_value(x)))?;
    atoms.push(Atom::Named(leaf_value(y)))?;
    Ok(Some(Term::Make(head, Atoms::new(atoms))))
}

// The inverse of what the operand compares.
fn inverse_term(alloc: Global, operand: &Operand) -> Result<Option<Term>, OptError>
    ensures ok { IfOk result (λ term. term ≡ inverse_term_by operand.now) }
    ensures memory { IsOkUnless result OptError.Memory }
{
    match operand {
        Operand::Plain(_) => Ok(None),
        Operand::Made(_, head, leaves) => {
            inverse_leaves(alloc, Comparison::of_head(head), leaves.as_slice())
        }
    }
}

// `(icmp p x y) xor true` is `icmp not-p x y`.
pub(crate) fn invert_comparison(
    alloc: Global,
    exclusion: Option<Arithmetic>,
    a: &Operand,
    b: &Operand,
) -> Result<Option<Term>, OptError>
    ensures ok { IfOk result (λ term. term ≡ invert_comparison_by exclusion a.now b.now) }
    ensures memory { IsOkUnless result OptError.Memory }
{
    let Some(exclusion) = exclusion else {
        return Ok(None);
    };
    if exclusion.width != 1 {
        return Ok(None);
    }
    match known_bits(1, b) {
        Some(1) => inverse_term(alloc, a),
        _ => Ok(None),
    }
}
