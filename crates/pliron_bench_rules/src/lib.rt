//! A set of rules for `Bench`: `(x + c) + d` is `x + (c + d)`, and `x + x` is `x * 2`.
//!
//! It shows what an author of rules writes: the table in `specs/BenchRules.antt`, the same as code, and for each rule that
//! its term has the datum of what is seen.
#![tactic(auto)]

ghost use Rattle.std.specs.Prelude.{◌≡◌, IfOk, IsOkUnless};
ghost use Rattle.pliron_bench_rules.specs.BenchRules.{bench_rules, double_of as double_by, is_kind as is_kind_by, join_of as join_by};
ghost use Rattle.pliron_bench_rules.specs.BenchRules.{known_leaf as known_leaf_by, known_operand as known_operand_by, number_of_attribute as number_in_by};
ghost use Rattle.pliron_bench_rules.specs.BenchRules.{part_of as part_of_by, part_of_leaves as part_of_leaves_by, part_with as part_with_by};
ghost use Rattle.pliron_bench_rules.specs.BenchRules.{rules_of_two as rules_of_two_by, term_with_number as with_number_by};
ghost use Rattle.pliron_bench_rules.specs.RulesHold.{bench_rules_hold};
ghost use Rattle.pliron_rewrite_rules.specs.Views.{leaf_value as leaf_value_by, operand_value as operand_value_by};

use pliron_core::{AttrObj, Head, Value};
use pliron_dialect_bench::heads::plain_head;
use pliron_dialect_bench::numbers::{sum, wrap};
use pliron_dialect_bench::{Bench, BenchKind};
use pliron_laws::OptError;
use pliron_rewrite_rules::{Atom, Atoms, Leaf, Operand, Rules, Term, View};
use std::alloc::Global;

/// Rules on sums of numbers.
pub struct BenchRules;

// A value, and a number.
#[derive(Clone, Copy)]
struct Addend {
    value: Value,
    number: i64,
}

// Whether an operation with this head is of the kind.
fn is_kind(kind: BenchKind, head: &Head) -> bool
    ensures { result ≡ is_kind_by kind head.now }
{
    head.kind == kind.number()
}

// The constant as a number of 64 signed bits, where a text counts as 0.
fn number_in(constant: &AttrObj) -> i64
    ensures { result ≡ number_in_by constant.now }
{
    match constant {
        AttrObj::Int(number) => wrap(*number),
        AttrObj::Text(_) => 0,
    }
}

// The value of the leaf.
fn leaf_value(leaf: &Leaf) -> Value
    ensures { result ≡ leaf_value_by leaf.now }
{
    match leaf {
        Leaf::Unknown(value) => *value,
        Leaf::Known(value, _) => *value,
    }
}

// The value of the operand.
fn operand_value(operand: &Operand) -> Value
    ensures { result ≡ operand_value_by operand.now }
{
    match operand {
        Operand::Plain(leaf) => leaf_value(leaf),
        Operand::Made(value, _, _) => *value,
    }
}

// The number that the leaf is known to be.
fn known_leaf(leaf: &Leaf) -> Option<i64>
    ensures { result ≡ known_leaf_by leaf.now }
{
    match leaf {
        Leaf::Unknown(_) => None,
        Leaf::Known(_, constant) => Some(number_in(constant)),
    }
}

// The number that the operand is known to be.
fn known_operand(operand: &Operand) -> Option<i64>
    ensures { result ≡ known_operand_by operand.now }
{
    match operand {
        Operand::Plain(leaf) => known_leaf(leaf),
        Operand::Made(_, _, _) => None,
    }
}

// The value of the first of two leaves, and the number that the second one is known to be.
fn part_of_leaves(leaves: &[Leaf]) -> Option<Addend>
    ensures { result ≡ part_of_leaves_by leaves.now }
{
    if leaves.len() != 2 {
        return None;
    }
    let number = known_leaf(&leaves[1])?;
    Some(Addend {
        value: leaf_value(&leaves[0]),
        number,
    })
}

// What the operand is the sum of, where the second is known.
fn part_of(operand: &Operand) -> Option<Addend>
    ensures { result ≡ part_of_by operand.now }
{
    match operand {
        Operand::Plain(_) => None,
        Operand::Made(_, head, leaves) => {
            if is_kind(BenchKind::Add, head) {
                part_of_leaves(leaves.as_slice())
            } else {
                None
            }
        }
    }
}

// An operation of the kind, of a value and a number.
fn with_number(alloc: Global, kind: BenchKind, value: Value, number: i64) -> Result<Term, OptError>
    ensures ok { IfOk result (λ term. term ≡ with_number_by kind value number) }
    ensures memory { IsOkUnless result OptError.Memory }
{
    let mut atoms = Vec::new(alloc);
    atoms.push(Atom::Named(value))?;
    atoms.push(Atom::Constant(AttrObj::Int(number as i128)))?;
    Ok(Term::Make(plain_head(alloc, kind), Atoms::new(atoms)))
}

// Two numbers become one: `(x + c) + d` is `x + (c + d)`.
fn join(alloc: Global, a: &Operand, b: &Operand) -> Result<Option<Term>, OptError>
    ensures ok { IfOk result (λ term. term ≡ join_by a.now b.now) }
    ensures memory { IsOkUnless result OptError.Memory }
{
    let Some(part) = part_of(a) else {
        return Ok(None);
    };
    let Some(number) = known_operand(b) else {
        return Ok(None);
    };
    let term = with_number(alloc, BenchKind::Add, part.value, sum(part.number, number))?;
    Ok(Some(term))
}

// `x + x` is `x * 2`.
fn double(alloc: Global, a: &Operand, b: &Operand) -> Result<Option<Term>, OptError>
    ensures ok { IfOk result (λ term. term ≡ double_by a.now b.now) }
    ensures memory { IsOkUnless result OptError.Memory }
{
    if operand_value(a) != operand_value(b) {
        return Ok(None);
    }
    let term = with_number(alloc, BenchKind::Mul, operand_value(a), 2)?;
    Ok(Some(term))
}

// What the rules answer for an operation with this head and two operands.
fn rules_of_two(
    alloc: Global,
    head: &Head,
    a: &Operand,
    b: &Operand,
) -> Result<Option<Term>, OptError>
    ensures ok { IfOk result (λ term. term ≡ rules_of_two_by head.now a.now b.now) }
    ensures memory { IsOkUnless result OptError.Memory }
{
    if !is_kind(BenchKind::Add, head) {
        return Ok(None);
    }
    match join(alloc, a, b)? {
        Some(term) => Ok(Some(term)),
        None => double(alloc, a, b),
    }
}

impl Rules<Bench> for BenchRules {
    ghost rules = { bench_rules };

    /// Cost: constant.
    fn rewrite(alloc: Global, view: &View) -> Result<Option<Term>, OptError> {
        let operands = view.operands.as_slice();
        if operands.len() != 2 {
            return Ok(None);
        }
        rules_of_two(alloc, &view.head, &operands[0], &operands[1])
    }

    ghost rules_hold = { bench_rules_hold };
}
