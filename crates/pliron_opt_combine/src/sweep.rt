//! Sweeps over operations, each of which is rewritten where a rule applies, and rounds behind them.
ghost use Rattle.std.specs.Prelude.{◌≡◌, ℕ, IfOk, OnOk, OnErr, IsOkUnless};
ghost use Rattle.pliron_core.specs.Tree.{In, IsLive};
ghost use Rattle.pliron_laws.specs.Linked.{IsWellLinked};
ghost use Rattle.pliron_graph_order.specs.Seen.{IsSeen};
ghost use Rattle.pliron_opt_combine.specs.Steps.{AreSwept, AreSweptPartly, AreSeen};

use crate::worklist::{RewriteWorklist, add_viewers};
use pliron_core::{Context, Operation, Ptr, Rewriter};
use pliron_graph_order::dominance_order;
use pliron_laws::{Dialect, OptError, Room};
use pliron_rewrite_rules::{HasRuleTables, Rules, apply_term, ask_rules};
use std::alloc::Global;

// The operation before this one, if it is in a block and has one before, is seen and asked next.
fn add_before(work: &mut RewriteWorklist, op: Ptr<Operation>, ctx: &Context) -> Result<(), OptError>
    requires live { IsLive ctx.now.tree op }
    ensures seen { (root : ℕ) → IsSeen ctx.now.tree root op → AreSeen ctx.now.tree root work.old.seen.keys → OnOk result
        (AreSeen ctx.now.tree root work.new.seen.keys) }
    ensures memory { IsOkUnless result OptError.Memory }
{
    ctx.well_formed();
    if let Some(new) = op.get_prev(ctx) {
        work.add_new(new)?;
    }
    Ok(())
}

// The operation is rewritten, if a rule applies and a rewrite is left. Answers how many are left then.
fn rewrite_operation<D: Dialect, L: Rules<D>, R: Rewriter + Room>(
    work: &mut RewriteWorklist,
    root: Ptr<Operation>,
    op: Ptr<Operation>,
    left: usize,
    ctx: &mut Context,
    rewriter: &mut R,
) -> Result<usize, OptError>
    requires live { IsLive ctx.old.tree root }
    requires linked { IsWellLinked D.meaning ctx.old.tree root }
    requires is_seen { IsSeen ctx.old.tree root op }
    requires seen { AreSeen ctx.old.tree root work.old.seen.keys }
    ensures ok { IfOk result (λ rest. AreSwept ⟦<D as HasRuleTables>⟧.rule_tables L.rules ctx.old.tree ctx.new.tree root
        left rest (λ k. k ≡ op)) }
    ensures seen { OnOk result (AreSeen ctx.new.tree root work.new.seen.keys) }
    ensures refused { OnErr result (AreSweptPartly ⟦<D as HasRuleTables>⟧.rule_tables L.rules ctx.old.tree ctx.new.tree
        root left) }
    ensures memory { IsOkUnless result OptError.Memory }
{
    ctx.well_formed();
    if left == 0 {
        return Ok(left);
    }
    let Some(term) = ask_rules::<D, L>(work.alloc, op, ctx)? else {
        return Ok(left);
    };
    add_viewers(op.get_result(ctx, 0), ctx, &work.seen, &mut work.next)?;
    let applied = apply_term::<D, L, R>(work.alloc, op, term, ctx, rewriter);
    ctx.well_formed();
    applied?;
    add_before(work, op, ctx)?;
    Ok(left - 1)
}

// These operations are rewritten, one after the other.
fn sweep<D: Dialect, L: Rules<D>, R: Rewriter + Room>(
    work: &mut RewriteWorklist,
    root: Ptr<Operation>,
    ops: &[Ptr<Operation>],
    left: usize,
    ctx: &mut Context,
    rewriter: &mut R,
) -> Result<usize, OptError>
    requires live { IsLive ctx.old.tree root }
    requires linked { IsWellLinked D.meaning ctx.old.tree root }
    requires are_seen { AreSeen ctx.old.tree root ops.now }
    requires seen { AreSeen ctx.old.tree root work.old.seen.keys }
    ensures ok { IfOk result (λ rest. AreSwept ⟦<D as HasRuleTables>⟧.rule_tables L.rules ctx.old.tree ctx.new.tree root
        left rest (λ k. In k ops.now)) }
    ensures seen { OnOk result (AreSeen ctx.new.tree root work.new.seen.keys) }
    ensures refused { OnErr result (AreSweptPartly ⟦<D as HasRuleTables>⟧.rule_tables L.rules ctx.old.tree ctx.new.tree
        root left) }
    ensures memory { IsOkUnless result OptError.Memory }
{
    ctx.well_formed();
    let mut rest = left;
    for i in 0..ops.len() {
        rest = rewrite_operation::<D, L, R>(work, root, ops[i], rest, ctx, rewriter)?;
    }
    Ok(rest)
}

// The operation at this place is rewritten, if there is one.
fn rewrite_at<D: Dialect, L: Rules<D>, R: Rewriter + Room>(
    work: &mut RewriteWorklist,
    root: Ptr<Operation>,
    place: usize,
    left: usize,
    ctx: &mut Context,
    rewriter: &mut R,
) -> Result<usize, OptError>
    requires live { IsLive ctx.old.tree root }
    requires linked { IsWellLinked D.meaning ctx.old.tree root }
    requires seen { AreSeen ctx.old.tree root work.old.seen.keys }
    ensures ok { IfOk result (λ rest. AreSwept ⟦<D as HasRuleTables>⟧.rule_tables L.rules ctx.old.tree ctx.new.tree root
        left rest (λ k. ⊥)) }
    ensures seen { OnOk result (AreSeen ctx.new.tree root work.new.seen.keys) }
    ensures refused { OnErr result (AreSweptPartly ⟦<D as HasRuleTables>⟧.rule_tables L.rules ctx.old.tree ctx.new.tree
        root left) }
    ensures memory { IsOkUnless result OptError.Memory }
{
    let Some(op) = work.seen.get_index(place).copied() else {
        return Ok(left);
    };
    rewrite_operation::<D, L, R>(work, root, op, left, ctx, rewriter)
}

// The operations at these places are rewritten, one after the other.
fn rewrite_round<D: Dialect, L: Rules<D>, R: Rewriter + Room>(
    work: &mut RewriteWorklist,
    root: Ptr<Operation>,
    places: &[usize],
    left: usize,
    ctx: &mut Context,
    rewriter: &mut R,
) -> Result<usize, OptError>
    requires live { IsLive ctx.old.tree root }
    requires linked { IsWellLinked D.meaning ctx.old.tree root }
    requires seen { AreSeen ctx.old.tree root work.old.seen.keys }
    ensures ok { IfOk result (λ rest. AreSwept ⟦<D as HasRuleTables>⟧.rule_tables L.rules ctx.old.tree ctx.new.tree root
        left rest (λ k. ⊥)) }
    ensures seen { OnOk result (AreSeen ctx.new.tree root work.new.seen.keys) }
    ensures refused { OnErr result (AreSweptPartly ⟦<D as HasRuleTables>⟧.rule_tables L.rules ctx.old.tree ctx.new.tree
        root left) }
    ensures memory { IsOkUnless result OptError.Memory }
{
    ctx.well_formed();
    let mut rest = left;
    for i in 0..places.len() {
        rest = rewrite_at::<D, L, R>(work, root, places[i], rest, ctx, rewriter)?;
    }
    Ok(rest)
}

// Round after round over what the rewrites of the one before may make apply, until none does.
fn rewrite_rounds<D: Dialect, L: Rules<D>, R: Rewriter + Room>(
    work: &mut RewriteWorklist,
    root: Ptr<Operation>,
    left: usize,
    ctx: &mut Context,
    rewriter: &mut R,
) -> Result<usize, OptError>
    requires live { IsLive ctx.old.tree root }
    requires linked { IsWellLinked D.meaning ctx.old.tree root }
    requires seen { AreSeen ctx.old.tree root work.old.seen.keys }
    ensures ok { IfOk result (λ rest. AreSwept ⟦<D as HasRuleTables>⟧.rule_tables L.rules ctx.old.tree ctx.new.tree root
        left rest (λ k. ⊥)) }
    ensures refused { OnErr result (AreSweptPartly ⟦<D as HasRuleTables>⟧.rule_tables L.rules ctx.old.tree ctx.new.tree
        root left) }
    ensures memory { IsOkUnless result OptError.Memory }
{
    ctx.well_formed();
    let mut rest = left;
    let mut goes_on = true;
    while goes_on {
        let round = work.take_next();
        let before = rest;
        rest = rewrite_round::<D, L, R>(work, root, round.as_slice(), before, ctx, rewriter)?;
        goes_on = rest < before;
    }
    Ok(rest)
}

/// One sweep over all operations that are seen, and if one was rewritten, rounds over what that may make apply. Answers
/// how many rewrites are left.
///
/// Asks that the root is live and is well linked. Errors: allocation failure, after some whole rewrites. Cost: that of
/// dominance order, of asking each operation once, and of asking again what a rewrite changes the view of.
pub fn sweep_in_rounds<D: Dialect, L: Rules<D>, R: Rewriter + Room>(
    alloc: Global,
    root: Ptr<Operation>,
    left: usize,
    ctx: &mut Context,
    rewriter: &mut R,
) -> Result<usize, OptError>
    requires live { IsLive ctx.old.tree root }
    requires linked { IsWellLinked D.meaning ctx.old.tree root }
    ensures ok { IfOk result (λ rest. AreSwept ⟦<D as HasRuleTables>⟧.rule_tables L.rules ctx.old.tree ctx.new.tree root
        left rest (λ k. IsSeen ctx.old.tree root k)) }
    ensures refused { OnErr result (AreSweptPartly ⟦<D as HasRuleTables>⟧.rule_tables L.rules ctx.old.tree ctx.new.tree
        root left) }
    ensures memory { IsOkUnless result OptError.Memory }
{
    ctx.well_formed();
    let order = dominance_order(alloc, root, ctx)?;
    let mut work = RewriteWorklist::new(alloc, &order.operations)?;
    let rest = sweep::<D, L, R>(&mut work, root, &order.operations, left, ctx, rewriter)?;
    if rest == left {
        return Ok(rest);
    }
    rewrite_rounds::<D, L, R>(&mut work, root, rest, ctx, rewriter)
}
