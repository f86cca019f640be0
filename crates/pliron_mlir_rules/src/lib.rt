//! A set of rules for MLIR's operations on integers, under every interpretation: a constant stands second; a comparison of
//! extensions is one of what they extend, and one with a constant is strict; a cast of a cast is one cast, or a mask; a
//! constant is added where one is subtracted; of two sums, masks, unions or exclusions with constants there is one; a product
//! or a quotient by a power of two is a shift, and a remainder by one a mask; a sum with a constant equals one where its value
//! equals the difference, and a difference or an exclusion is 0 where its operands are equal; and an inverted comparison is
//! the inverse one.
//!
//! The table is in `specs/MlirRules.antt`; for each rule its term has the datum of what is seen, also where the data are no
//! numbers.
#![tactic(auto)]

ghost use Rattle.std.specs.Prelude.{◌≡◌, Some, IfOk, IsOkUnless, refl};
ghost use Rattle.pliron_mlir_rules.specs.MlirRules.{mlir_rules, has_rules as has_rules_by, rules_of_unary as rules_of_unary_by, rules_of_binary as rules_of_binary_by};
ghost use Rattle.pliron_mlir_rules.specs.MlirRules.{rules_of_comparison as rules_of_comparison_by, rules_of_arithmetic as rules_of_arithmetic_by};
ghost use Rattle.pliron_mlir_rules.specs.RulesHold.{mlir_rules_hold};

mod casts;
mod comparisons;
mod constants;
mod equations;
mod inverses;
mod joined_sums;
mod masks;
mod orders;
mod powers;
mod seen;
mod strict;
mod sums;

use casts::join_casts;
use comparisons::compare_narrow;
use constants::rules_of_constants;
use equations::{compare_difference, compare_summand};
use inverses::invert_comparison;
use masks::mask_bits;
use orders::{swap_comparison, swap_constant};
use pliron_bits::{BinaryOperator, Cast};
use pliron_core::Head;
use pliron_dialect_mlir::{
    Arithmetic, Class, Comparison, Conversion, Interpretation, Mlir, class_number,
};
use pliron_laws::OptError;
use pliron_rewrite_rules::{Operand, Rules, Term, View};
use powers::rules_of_powers;
use std::alloc::Global;
use strict::compare_strictly;
use sums::subtract_constant;

/// Rules on integers.
pub struct MlirRules;

// Whether there are rules for operations with this head, by its class.
fn has_rules(head: &Head) -> bool
    ensures { result ≡ has_rules_by head.now }
{
    head.kind >= class_number(Class::Compare)
}

// What the rules answer for an operation with this head and one operand.
fn rules_of_unary(alloc: Global, head: &Head, a: &Operand) -> Result<Option<Term>, OptError>
    ensures ok { IfOk result (λ term. term ≡ rules_of_unary_by head.now a.now) }
    ensures memory { IsOkUnless result OptError.Memory }
{
    let cast = Cast::ZeroExtend;
    if let Some(term) = join_casts(alloc, cast, Conversion::of_head(cast, head), a)? {
        return Ok(Some(term));
    }
    let cast = Cast::SignExtend;
    if let Some(term) = join_casts(alloc, cast, Conversion::of_head(cast, head), a)? {
        return Ok(Some(term));
    }
    let cast = Cast::Truncate;
    if let Some(term) = join_casts(alloc, cast, Conversion::of_head(cast, head), a)? {
        return Ok(Some(term));
    }
    mask_bits(alloc, Conversion::of_head(Cast::ZeroExtend, head), a)
}

// What the rules answer for a comparison.
fn rules_of_comparison(
    alloc: Global,
    comparison: Option<Comparison>,
    a: &Operand,
    b: &Operand,
) -> Result<Option<Term>, OptError>
    ensures ok { IfOk result (λ term. term ≡ rules_of_comparison_by comparison a.now b.now) }
    ensures memory { IsOkUnless result OptError.Memory }
{
    if let Some(term) = swap_comparison(alloc, comparison, a, b)? {
        return Ok(Some(term));
    }
    if let Some(term) = compare_narrow(alloc, Cast::ZeroExtend, comparison, a, b)? {
        return Ok(Some(term));
    }
    if let Some(term) = compare_narrow(alloc, Cast::SignExtend, comparison, a, b)? {
        return Ok(Some(term));
    }
    if let Some(term) = compare_strictly(alloc, comparison, a, b)? {
        return Ok(Some(term));
    }
    if let Some(term) = compare_summand(alloc, comparison, a, b)? {
        return Ok(Some(term));
    }
    let operator = BinaryOperator::Subtract;
    if let Some(term) = compare_difference(alloc, operator, comparison, a, b)? {
        return Ok(Some(term));
    }
    compare_difference(alloc, BinaryOperator::Xor, comparison, a, b)
}

// What the rules answer for an operation with this head that computes an integer of two.
fn rules_of_arithmetic(
    alloc: Global,
    head: &Head,
    a: &Operand,
    b: &Operand,
) -> Result<Option<Term>, OptError>
    ensures ok { IfOk result (λ term. term ≡ rules_of_arithmetic_by head.now a.now b.now) }
    ensures memory { IsOkUnless result OptError.Memory }
{
    let difference = Arithmetic::of_head(BinaryOperator::Subtract, head);
    if let Some(term) = subtract_constant(alloc, difference, a, b)? {
        return Ok(Some(term));
    }
    if let Some(term) = rules_of_constants(alloc, head, a, b)? {
        return Ok(Some(term));
    }
    invert_comparison(alloc, Arithmetic::of_head(BinaryOperator::Xor, head), a, b)
}

// What the rules answer for an operation with this head and two operands.
fn rules_of_binary(
    alloc: Global,
    head: &Head,
    a: &Operand,
    b: &Operand,
) -> Result<Option<Term>, OptError>
    ensures ok { IfOk result (λ term. term ≡ rules_of_binary_by head.now a.now b.now) }
    ensures memory { IsOkUnless result OptError.Memory }
{
    if let Some(term) = rules_of_comparison(alloc, Comparison::of_head(head), a, b)? {
        return Ok(Some(term));
    }
    if let Some(term) = swap_constant(alloc, head, a, b)? {
        return Ok(Some(term));
    }
    if let Some(term) = rules_of_arithmetic(alloc, head, a, b)? {
        return Ok(Some(term));
    }
    rules_of_powers(alloc, head, a, b)
}

impl<I: Interpretation> Rules<Mlir<I>> for MlirRules {
    ghost rules = { mlir_rules };

    /// Those of comparisons, casts and operations that compute an integer of two.
    fn may_apply(head: &Head) -> bool {
        has_rules(head)
    }

    /// Cost: constant.
    fn rewrite(alloc: Global, view: &View) -> Result<Option<Term>, OptError> {
        let head = &view.head;
        if !has_rules(head) {
            return Ok(None);
        }
        match view.operands.as_slice() {
            [a] => rules_of_unary(alloc, head, a),
            [a, b] => rules_of_binary(alloc, head, a, b),
            _ => Ok(None),
        }
    }

    ghost rules_hold = { mlir_rules_hold (λ k. k.class) (λ c. record { class = c; meaning = record {} }) I.value
        (λ c. refl) };
}
