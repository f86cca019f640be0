//! Sets of rules, applied to all operations that are seen inside an operation until none applies, or a limit is reached.
//!
//! It builds on the theory of runs, views of operations and dominance order. It knows nothing of the other optimisations, of
//! passes or of the program.
#![tactic(auto)]

ghost use Rattle.std.specs.Prelude.{◌≡◌, ◌↔◌, ℕ, List, IfOk, IsOkUnless, length};
ghost use Rattle.pliron_core.specs.Tree.{IsLive};
ghost use Rattle.pliron_laws.specs.Linked.{IsWellLinked};
ghost use Rattle.pliron_theory.specs.Change.{IsWholeChange};
ghost use Rattle.pliron_theory.specs.Edges.{KeepsEdges};
ghost use Rattle.pliron_opt_combine.specs.declared.Ending.TheVariants.{Finished as IsFinished, LimitReached as IsLimitReached};
ghost use Rattle.pliron_opt_combine.specs.Rewrites.{Rewrite, RewriteInTurn, AreRewritten, HasRewrites};

mod sweep;
mod worklist;

use crate::sweep::sweep_in_rounds;
use pliron_core::{Context, IRRewriter, Operation, Ptr, Rewriter};
use pliron_laws::{Dialect, OptError, Room};
use pliron_rewrite_rules::{HasRuleTables, Rules};
use std::alloc::Global;

/// How a call of `combine` ended.
#[derive(Clone, Copy, Debug, PartialEq, Eq)]
pub enum Ending {
    /// No rule applies any more.
    Finished,
    /// As many rewrites were made as the caller allows; rules may still apply.
    LimitReached,
}

/// What a call of `combine` did.
#[derive(Clone, Copy, Debug, PartialEq, Eq)]
pub struct CombineOutcome {
    /// How many rewrites were made.
    pub count: usize,
    /// How it ended.
    pub ending: Ending,
}

/// Applies a set of rules to what is inside the operation, at most `limit` times: where a rule answers a term for an
/// operation, whose result is used, the term is put just before the operation and has the uses of the result. Operations
/// are visited in the blocks that the entries of their regions reach, in regions with SSA dominance, however deep, in
/// dominance order; again those of which a rewrite changed what is seen; and at the end all once more.
///
/// Nothing is erased, and values and operations keep their handles; blocks and edges stay.
///
/// Runs are kept of every root that is otherwise fit to run, also of one whose head may not be a root's.
///
/// Asks that the operation is live and is well linked. Answers how many rewrites were made, and whether no rule applies any
/// more, or the limit is reached. The tree changed exactly if there was a rewrite.
///
/// Errors: allocation failure. The tree is then one after some whole rewrites.
///
/// Cost: for each sweep that of a dominator tree for each region, and of the view and the rules for each operation: of two
/// sweeps, one where no rule applies, and one more for each time that a later sweep finds a rule that applies; for each
/// rewrite that of its term, and for each use that it moves, of asking the operation and those that use its results.
pub fn combine<D: Dialect, L: Rules<D>>(
    alloc: Global,
    op: Ptr<Operation>,
    limit: usize,
    ctx: &mut Context,
) -> Result<CombineOutcome, OptError>
    requires live { IsLive ctx.old.tree op }
    requires linked { IsWellLinked D.meaning ctx.old.tree op }
    ensures change { IsWholeChange D.meaning ctx.old.tree ctx.new.tree op }
    ensures rewritten { (rs : List Rewrite) × AreRewritten ⟦<D as HasRuleTables>⟧.rule_tables L.rules op limit rs
        ctx.old.tree ctx.new.tree × IfOk result (λ c. RewriteInTurn ⟦<D as HasRuleTables>⟧.rule_tables L.rules op rs
        ctx.old.tree ctx.new.tree × (c.count ≡ length rs)) }
    ensures none { IfOk result (λ c. c.ending ≡ IsFinished → HasRewrites ⟦<D as HasRuleTables>⟧.rule_tables L.rules
        ctx.new.tree op → ⊥) }
    ensures limit { IfOk result (λ c. c.ending ≡ IsLimitReached → c.count ≡ limit) }
    ensures accurate { IfOk result (λ c. (c.count ≡ 0) ↔ (ctx.new.tree ≡ ctx.old.tree)) }
    ensures edges { KeepsEdges ctx.old.tree ctx.new.tree }
    ensures links { (root : ℕ) → IsWellLinked D.meaning ctx.old.tree root → IsWellLinked D.meaning ctx.new.tree root }
    ensures memory { IsOkUnless result OptError.Memory }
{
    let mut rewriter = IRRewriter::new();
    combine_through::<D, L, IRRewriter>(alloc, op, limit, ctx, &mut rewriter)
}

/// Applies a set of rules to what is inside the operation, as `combine` does, and makes each change through this rewriter,
/// which reports it to its listener. The rewriter is asked for room for a whole rewrite before the first change of it.
///
/// Asks that the operation is live and is well linked. Errors: as `combine`, and where the rewriter has no room. Cost: as
/// `combine`, and what the rewriter does at each change.
pub fn combine_through<D: Dialect, L: Rules<D>, R: Rewriter + Room>(
    alloc: Global,
    op: Ptr<Operation>,
    limit: usize,
    ctx: &mut Context,
    rewriter: &mut R,
) -> Result<CombineOutcome, OptError>
    requires live { IsLive ctx.old.tree op }
    requires linked { IsWellLinked D.meaning ctx.old.tree op }
    ensures change { IsWholeChange D.meaning ctx.old.tree ctx.new.tree op }
    ensures rewritten { (rs : List Rewrite) × AreRewritten ⟦<D as HasRuleTables>⟧.rule_tables L.rules op limit rs
        ctx.old.tree ctx.new.tree × IfOk result (λ c. RewriteInTurn ⟦<D as HasRuleTables>⟧.rule_tables L.rules op rs
        ctx.old.tree ctx.new.tree × (c.count ≡ length rs)) }
    ensures none { IfOk result (λ c. c.ending ≡ IsFinished → HasRewrites ⟦<D as HasRuleTables>⟧.rule_tables L.rules
        ctx.new.tree op → ⊥) }
    ensures limit { IfOk result (λ c. c.ending ≡ IsLimitReached → c.count ≡ limit) }
    ensures accurate { IfOk result (λ c. (c.count ≡ 0) ↔ (ctx.new.tree ≡ ctx.old.tree)) }
    ensures edges { KeepsEdges ctx.old.tree ctx.new.tree }
    ensures links { (root : ℕ) → IsWellLinked D.meaning ctx.old.tree root → IsWellLinked D.meaning ctx.new.tree root }
    ensures memory { IsOkUnless result OptError.Memory }
{
    ctx.well_formed();
    let mut left = limit;
    while left > 0 {
        let rest = sweep_in_rounds::<D, L, R>(alloc, op, left, ctx, rewriter)?;
        if rest == left {
            return Ok(CombineOutcome {
                count: limit - left,
                ending: Ending::Finished,
            });
        }
        left = rest;
    }
    Ok(CombineOutcome {
        count: limit,
        ending: Ending::LimitReached,
    })
}
