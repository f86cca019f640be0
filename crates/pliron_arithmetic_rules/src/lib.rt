//! A set of rules for `Arithmetic`: `x + x` is `x * 2`.
//!
//! It is the pattern that `tools/new_dialect` copies.
#![tactic(auto)]

ghost use Rattle.std.specs.Prelude.{◌≡◌, IfOk, IsOkUnless};
ghost use Rattle.pliron_arithmetic_rules.specs.ArithmeticRules.{arithmetic_double, arithmetic_head, arithmetic_rules, arithmetic_rules_of_two, arithmetic_term, is_arithmetic_kind};
ghost use Rattle.pliron_arithmetic_rules.specs.RulesHold.{arithmetic_rules_hold};
ghost use Rattle.pliron_rewrite_rules.specs.Views.{leaf_value as leaf_value_by, operand_value as operand_value_by};

use pliron_core::{AttrObj, Attrs, Head, Value};
use pliron_dialect::Roles;
use pliron_dialect_arithmetic::{Arithmetic, ArithmeticKind};
use pliron_laws::OptError;
use pliron_rewrite_rules::{Atom, Atoms, Leaf, Operand, Rules, Term, View};
use std::alloc::Global;

/// Rules on sums.
pub struct ArithmeticRules;

// Whether an operation with this head is of the kind.
fn is_kind(kind: ArithmeticKind, head: &Head) -> bool
    ensures { result ≡ is_arithmetic_kind kind head.now }
{
    head.kind == kind.number()
}

// The head of a new operation of the kind.
fn head_of(alloc: Global, kind: ArithmeticKind) -> Head
    ensures { result ≡ arithmetic_head kind }
{
    Head {
        kind: kind.number(),
        ssa: kind.is_ssa(),
        attrs: Attrs::new(Vec::new(alloc)),
    }
}

// An operation of the kind, of a value and a number.
fn term_of(alloc: Global, kind: ArithmeticKind, value: Value, number: i64) -> Result<Term, OptError>
    ensures ok { IfOk result (λ term. term ≡ arithmetic_term kind value number) }
    ensures memory { IsOkUnless result OptError.Memory }
{
    let mut atoms = Vec::new(alloc);
    atoms.push(Atom::Named(value))?;
    atoms.push(Atom::Constant(AttrObj::Int(number as i128)))?;
    Ok(Term::Make(head_of(alloc, kind), Atoms::new(atoms)))
}

// The value of the leaf.
fn leaf_value(leaf: &Leaf) -> Value
    ensures { result ≡ leaf_value_by leaf.now }
{
    match leaf {
        Leaf::Unknown(value) => *value,
        Leaf::Known(value, _) => *value,
    }
}

// The value of the operand.
fn operand_value(operand: &Operand) -> Value
    ensures { result ≡ operand_value_by operand.now }
{
    match operand {
        Operand::Plain(leaf) => leaf_value(leaf),
        Operand::Made(value, _, _) => *value,
    }
}

// `x + x` is `x * 2`.
fn double(alloc: Global, head: &Head, a: &Operand, b: &Operand) -> Result<Option<Term>, OptError>
    ensures ok { IfOk result (λ term. term ≡ arithmetic_double head.now a.now b.now) }
    ensures memory { IsOkUnless result OptError.Memory }
{
    if !is_kind(ArithmeticKind::Add, head) || operand_value(a) != operand_value(b) {
        return Ok(None);
    }
    let term = term_of(alloc, ArithmeticKind::Mul, operand_value(a), 2)?;
    Ok(Some(term))
}

// What the first rule answers that answers for an operation with this head and two operands.
fn rules_of_two(
    alloc: Global,
    head: &Head,
    a: &Operand,
    b: &Operand,
) -> Result<Option<Term>, OptError>
    ensures ok { IfOk result (λ term. term ≡ arithmetic_rules_of_two head.now a.now b.now) }
    ensures memory { IsOkUnless result OptError.Memory }
{
    if let Some(term) = double(alloc, head, a, b)? {
        return Ok(Some(term));
    }
    Ok(None)
}

impl Rules<Arithmetic> for ArithmeticRules {
    ghost rules = { arithmetic_rules };

    /// Cost: constant.
    fn rewrite(alloc: Global, view: &View) -> Result<Option<Term>, OptError> {
        let operands = view.operands.as_slice();
        if operands.len() != 2 {
            return Ok(None);
        }
        rules_of_two(alloc, &view.head, &operands[0], &operands[1])
    }

    ghost rules_hold = { arithmetic_rules_hold };
}
