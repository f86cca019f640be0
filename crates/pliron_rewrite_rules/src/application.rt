//! The whole rewrite that applies a set of rules to an operation.
ghost use Rattle.std.specs.Prelude.{◌≡◌, ◌↔◌, ℕ, Some, IsSome, IsTrue, IfOk, OnOk, OnErr, IsOkUnless};
ghost use Rattle.pliron_core.specs.Tree.{IsLive, parent_of};
ghost use Rattle.pliron_core.specs.Changes.{IsSameTree};
ghost use Rattle.pliron_laws.specs.MaterialisedConstants.{IsRestored};
ghost use Rattle.pliron_rewrite_rules.specs.declared.term.Term.TheVariants.{Atomic as AtomicTerm};
ghost use Rattle.pliron_rewrite_rules.specs.declared.term.Atom.TheVariants.{Named as NamedAtom};
ghost use Rattle.pliron_rewrite_rules.specs.Rewriting.{after_rewriting, term_value, IsRuleFor};
ghost use Rattle.pliron_rewrite_rules.specs.Applying.{answered_term, Applies, IsRuleAnswer, IsLocalChange, IsRewritten};

use crate::seeing::{is_pure, view_of};
use crate::terms::put_term;
use crate::{Atom, HasRuleTables, Rules, Term};
use pliron_core::{Context, Operation, Ptr, Rewriter, Value};
use pliron_laws::{Dialect, OptError, Room};
use std::alloc::Global;

// Whether the term is this value.
fn is_named(term: &Term, value: Value) -> bool
    ensures { IsTrue result ↔ (term.now ≡ AtomicTerm (NamedAtom value)) }
{
    match term {
        Term::Atomic(Atom::Named(named)) => *named == value,
        Term::Atomic(Atom::Constant(_)) => false,
        Term::Make(_, _) => false,
    }
}

// What the rules answer for what is seen of the operation, where it is pure.
fn answer_of<D: Dialect, L: Rules<D>>(
    alloc: Global,
    op: Ptr<Operation>,
    ctx: &Context,
) -> Result<Option<Term>, OptError>
    requires { IsLive ctx.now.tree op }
    ensures ok { IfOk result (λ term. term ≡ answered_term ⟦<D as HasRuleTables>⟧.rule_tables ctx.now.tree L.rules op) }
    ensures memory { IsOkUnless result OptError.Memory }
{
    if !L::may_apply(op.head(ctx)) {
        return Ok(None);
    }
    if !is_pure::<D>(op, ctx) {
        return Ok(None);
    }
    let view = view_of::<D>(alloc, op, ctx)?;
    L::rewrite(alloc, &view)
}

/// What a set of rules answers for the operation, where it is pure and its result is used: a term that may have the uses.
/// A term that is the result itself is none.
///
/// Asks that the operation is live. Errors: allocation failure. Cost: that of the view and of the rules.
pub fn ask_rules<D: Dialect, L: Rules<D>>(
    alloc: Global,
    op: Ptr<Operation>,
    ctx: &Context,
) -> Result<Option<Term>, OptError>
    requires { IsLive ctx.now.tree op }
    ensures ok { IfOk result (λ answer. IsRuleAnswer ⟦<D as HasRuleTables>⟧.rule_tables L.rules ctx.now.tree
        op answer) }
    ensures memory { IsOkUnless result OptError.Memory }
{
    ctx.well_formed();
    if op.num_result(ctx) != 1 {
        return Ok(None);
    }
    let old = op.get_result(ctx, 0);
    if old.num_use(ctx) == 0 {
        return Ok(None);
    }
    let Some(term) = answer_of::<D, L>(alloc, op, ctx)? else {
        return Ok(None);
    };
    if is_named(&term, old) {
        return Ok(None);
    }
    Ok(Some(term))
}

// The term is put before `op`, and has the uses of its result.
fn replace_by_term<D: Dialect, R: Rewriter + Room>(
    alloc: Global,
    op: Ptr<Operation>,
    term: Term,
    ctx: &mut Context,
    rewriter: &mut R,
) -> Result<Value, OptError>
    requires rule { (old : ℕ) × IsRuleFor ⟦<D as HasRuleTables>⟧.rule_tables ctx.old.tree op old term }
    ensures value { IfOk result (λ value. value ≡ term_value ⟦<D as HasRuleTables>⟧.rule_tables ctx.old.tree op term) }
    ensures ok { OnOk result ((old : ℕ) → IsRuleFor ⟦<D as HasRuleTables>⟧.rule_tables ctx.old.tree op old term
        → ctx.new.tree ≡ after_rewriting ⟦<D as HasRuleTables>⟧.rule_tables ctx.old.tree op old term) }
    ensures refused { OnErr result (IsRestored ctx.old.tree ctx.new.tree) }
    ensures memory { IsOkUnless result OptError.Memory }
{
    ctx.well_formed();
    // for a value of the view, whose uses alone move
    rewriter.room(alloc, 1)?;
    let new = put_term::<D, R>(alloc, op, term, ctx, rewriter)?;
    ctx.well_formed();
    let old = op.get_result(ctx, 0);
    rewriter.replace_value_uses_with(ctx, old, new)?;
    Ok(new)
}

/// The term that a set of rules answered for the operation is put just before it, and has all uses of its result.
/// Answers the value that has them.
///
/// Asks that the operation is in a block, and that the term is the answer for it. Errors: allocation failure, which
/// leaves the tree as it was but for erased handles. Cost: what the term makes, and the uses of the result.
pub fn apply_term<D: Dialect, L: Rules<D>, R: Rewriter + Room>(
    alloc: Global,
    op: Ptr<Operation>,
    term: Term,
    ctx: &mut Context,
    rewriter: &mut R,
) -> Result<Value, OptError>
    requires placed { IsSome (parent_of ctx.old.tree op) }
    requires applies { Applies ⟦<D as HasRuleTables>⟧.rule_tables L.rules ctx.old.tree op term }
    ensures ok { IfOk result (λ new. IsRewritten ⟦<D as HasRuleTables>⟧.rule_tables L.rules ctx.old.tree ctx.new.tree op
        (Some new)) }
    ensures refused { OnErr result (IsRestored ctx.old.tree ctx.new.tree) }
    ensures memory { IsOkUnless result OptError.Memory }
    ensures change { IsLocalChange D.meaning ctx.old.tree ctx.new.tree op }
{
    ctx.well_formed();
    let replaced = replace_by_term::<D, R>(alloc, op, term, ctx, rewriter);
    ctx.well_formed();
    replaced
}

/// Applies a set of rules to the operation: where it is pure, its result is used, and a rule answers a term for what is
/// seen of it, the term is put just before it and has all uses of the result. Answers the value that has them, `None`
/// where no rule applies.
///
/// Asks that the operation is live in a block. Errors: allocation failure, which leaves the tree as it was but for erased
/// handles. Cost: that of the view and of the rules, what the term makes, and the uses of the result.
pub fn apply_rules<D: Dialect, L: Rules<D>, R: Rewriter + Room>(
    alloc: Global,
    op: Ptr<Operation>,
    ctx: &mut Context,
    rewriter: &mut R,
) -> Result<Option<Value>, OptError>
    requires live { IsLive ctx.old.tree op }
    requires placed { IsSome (parent_of ctx.old.tree op) }
    ensures ok { IfOk result (λ new. IsRewritten ⟦<D as HasRuleTables>⟧.rule_tables L.rules ctx.old.tree ctx.new.tree op
        new) }
    ensures refused { OnErr result (IsSameTree ctx.old.tree ctx.new.tree) }
    ensures memory { IsOkUnless result OptError.Memory }
    ensures change { IsLocalChange D.meaning ctx.old.tree ctx.new.tree op }
{
    let Some(term) = ask_rules::<D, L>(alloc, op, ctx)? else {
        return Ok(None);
    };
    let new = apply_term::<D, L, R>(alloc, op, term, ctx, rewriter)?;
    Ok(Some(new))
}
