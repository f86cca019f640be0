//! Passes on the operations directly inside an operation.
ghost use Rattle.std.specs.Prelude.{◌≡◌, ℕ, true, List, OnOk, Some};
ghost use Rattle.pliron_core.specs.Tree.{IsLive, parent_operation_of};
ghost use Rattle.pliron_core.specs.Walks.{children};
ghost use Rattle.pliron_laws.specs.Linked.{IsWellLinked};
ghost use Rattle.pliron_pass.specs.Cache.{IsFresh};
ghost use Rattle.pliron_theory.specs.Change.{IsPassChange};
ghost use Rattle.pliron_pass.specs.Combined.{Closes, Steps, RunsOverAll, nested_name};
ghost use Rattle.pliron_pass.specs.Stage.{stage};

use crate::headline::run_pipeline;
use crate::kinds::AnalysisKind;
use crate::manager::AnalysisManager;
use crate::pass::Pass;
use crate::result::PassResult;
use crate::run::{ManagedPass, close};
use pliron_core::{Context, IRStatus, Operation, Ptr};
use pliron_laws::OptError;
use std::alloc::Global;

/// Runs a pass on each operation directly inside.
#[derive(Drop)]
pub struct NestedOpsPass<P: Pass> {
    pass: P,
}

impl<P: Pass> NestedOpsPass<P> {
    /// The pass on each operation directly inside. Cost: constant.
    pub fn new(pass: P) -> Self
        ensures { result.pass ≡ pass }
    {
        NestedOpsPass { pass }
    }

    /// The pass that it runs, as it is now: after a run, as the last operation left it. Cost: constant.
    pub fn pass(&self) -> &P
        ensures { result.now ≡ self.now.pass }
    {
        &self.pass
    }
}

// Runs a pass on one of the operations directly inside the parent operation `holder`, which stays as it is but for the
// inside of that one.
fn run_held<P: Pass>(
    pass: &mut P,
    alloc: Global,
    holder: Ptr<Operation>,
    op: Ptr<Operation>,
    ctx: &mut Context,
    analyses: &mut AnalysisManager<P::E>,
) -> Result<IRStatus, OptError>
    requires linked { IsWellLinked P.D.meaning ctx.old.tree holder }
    requires held { parent_operation_of ctx.old.tree op ≡ Some holder }
    ensures change { IsPassChange P.D.meaning ctx.old.tree ctx.new.tree holder }
    ensures held { parent_operation_of ctx.new.tree op ≡ Some holder }
    ensures children { children ctx.new.tree holder ≡ children ctx.old.tree holder }
    ensures fresh { OnOk result (IsFresh P.E.Kind.eq P.E.kind P.E.holds ctx.old.tree analyses.old.cache.entries →
        IsFresh P.E.Kind.eq P.E.kind P.E.holds ctx.new.tree analyses.new.cache.entries) }
    ensures outcome { Steps P.E.Kind.eq ⟦<P as ManagedPass>⟧.runs pass.old pass.new op (stage ctx.old analyses.old)
        (stage ctx.new analyses.new) result }
{
    ctx.well_formed();
    let ran = run_pipeline(pass, alloc, op, ctx, analyses);
    ctx.well_formed();
    ran
}

// Runs a pass on each operation directly inside this one.
fn run_nested<P: Pass>(
    pass: &mut P,
    alloc: Global,
    op: Ptr<Operation>,
    ctx: &mut Context,
    analyses: &mut AnalysisManager<P::E>,
) -> Result<IRStatus, OptError>
    requires live { IsLive ctx.old.tree op }
    requires linked { IsWellLinked P.D.meaning ctx.old.tree op }
    ensures change { IsPassChange P.D.meaning ctx.old.tree ctx.new.tree op }
    ensures fresh { OnOk result (IsFresh P.E.Kind.eq P.E.kind P.E.holds ctx.old.tree analyses.old.cache.entries →
        IsFresh P.E.Kind.eq P.E.kind P.E.holds ctx.new.tree analyses.new.cache.entries) }
    ensures outcome { RunsOverAll P.E.Kind.eq ⟦<P as ManagedPass>⟧.runs (children ctx.old.tree op) pass.old pass.new
        (stage ctx.old analyses.old) (stage ctx.new analyses.new) result }
{
    ctx.well_formed();
    let mut changed = IRStatus::Unchanged;
    let mut at = op.first_inside(ctx);
    while let Some(inner) = at {
        changed |= run_held(pass, alloc, op, inner, ctx, analyses)?;
        ctx.well_formed();
        at = inner.next_beside(ctx);
    }
    Ok(changed)
}

impl<P: Pass> Pass for NestedOpsPass<P> {
    type D = P::D;

    type E = P::E;

    ghost is_pass_manager = { λ p. true };

    ghost name = { λ p. nested_name };

    ghost outcome = { λ p p' op s s' r. Closes P.E.Kind.eq (λ u ran. RunsOverAll P.E.Kind.eq ⟦<P as ManagedPass>⟧.runs
        (children s.tree op) p.pass p'.pass s u ran) s' r };

    fn name(&self) -> &str {
        "nested_ops_pass"
    }

    fn run(
        &mut self,
        alloc: Global,
        op: Ptr<Operation>,
        ctx: &mut Context,
        analyses: &mut AnalysisManager<P::E>,
    ) -> Result<PassResult<<P::E as AnalysisKind>::Kind>, OptError> {
        let ran = run_nested(&mut self.pass, alloc, op, ctx, analyses);
        close(ran, analyses)
    }

    fn is_pass_manager(&self) -> bool {
        true
    }
}
