//! Passes on a module of a program.
ghost use Rattle.std.specs.Prelude.{OnOk};
ghost use Rattle.pliron_core.specs.Tree.{IsLive};
ghost use Rattle.pliron_laws.specs.Linked.{IsWellLinked};
ghost use Rattle.pliron_theory.specs.Change.{IsPassChange};
ghost use Rattle.pliron_pass.specs.Cache.{IsFresh};
ghost use Rattle.pliron_pass.specs.Combined.{Steps};
ghost use Rattle.pliron_pass.specs.Stage.{stage};
ghost use Rattle.pliron_pass_linked.specs.KeepsLinked.{KeepsPrograms};

use pliron_core::{Context, IRStatus, Operation, Ptr};
use pliron_laws::OptError;
use pliron_pass::{AnalysisManager, ManagedPass, Pass, run_pipeline};
use std::alloc::Global;

/// Runs a pass on an operation of a module of a program, as `run_pipeline` does.
///
/// Whatever it answers, in every program that has the module, and under every calling convention: linked runs of each
/// function that was fit to run and is still live are as before, if all functions that are called by name are such
/// (`programs`).
///
/// Asks that the operation is live and is well linked. Errors: those of `run_pipeline`. Cost: that of the pass.
pub fn run_pipeline_in_program<P: Pass>(
    pass: &mut P,
    alloc: Global,
    op: Ptr<Operation>,
    ctx: &mut Context,
    analyses: &mut AnalysisManager<P::E>,
) -> Result<IRStatus, OptError>
    requires live { IsLive ctx.old.tree op }
    requires linked { IsWellLinked P.D.meaning ctx.old.tree op }
    ensures programs { KeepsPrograms P.D.meaning ctx.old.tree ctx.new.tree }
    ensures fresh { OnOk result (IsFresh P.E.Kind.eq P.E.kind P.E.holds ctx.old.tree analyses.old.cache.entries →
        IsFresh P.E.Kind.eq P.E.kind P.E.holds ctx.new.tree analyses.new.cache.entries) }
    ensures outcome { Steps P.E.Kind.eq ⟦<P as ManagedPass>⟧.runs pass.old pass.new op (stage ctx.old analyses.old)
        (stage ctx.new analyses.new) result }
    ensures change { IsPassChange P.D.meaning ctx.old.tree ctx.new.tree op }
{
    run_pipeline(pass, alloc, op, ctx, analyses)
}
