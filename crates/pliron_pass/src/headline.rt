//! What every pass keeps, however it is nested, on one call.
ghost use Rattle.std.specs.Prelude.{OnOk};
ghost use Rattle.pliron_core.specs.Tree.{IsLive};
ghost use Rattle.pliron_core.specs.Changes.{IsInsideChange};
ghost use Rattle.pliron_laws.specs.Linked.{IsWellLinked};
ghost use Rattle.pliron_theory.specs.Change.{IsPassChange};
ghost use Rattle.pliron_pass.specs.Cache.{IsFresh};
ghost use Rattle.pliron_pass.specs.Combined.{Steps};
ghost use Rattle.pliron_pass.specs.Stage.{stage};
ghost use Rattle.pliron_pass.specs.Headline.{DoAsBefore};

use crate::kinds::AnalysisKind;
use crate::manager::AnalysisManager;
use crate::pass::Pass;
use crate::run::{ManagedPass, PassManager};
use pliron_core::{Context, IRStatus, Operation, Ptr};
use pliron_laws::OptError;
use std::alloc::Global;

/// Runs a pass on the operation, whatever passes are nested in it, and keeps of the cache what it
/// preserves.
///
/// For every dialect that keeps its laws, every pass, and every analysis that keeps its law: whatever this
/// answers, each operation that was fit to run and is still live does exactly what it did, and is fit to run;
/// the operation is live and well linked; outside it only operands change that named a value defined inside
/// it (all this is what each pass owes, `change`). Without an error, a cache that was fresh is fresh. What it did
/// is the pass's own outcome.
///
/// Asks that the operation is live and is well linked. Errors: those of the pass; `VerifyBefore` and
/// `VerifyAfter` where the configuration asks for verifying and a fault is found; allocation failure. Cost: that
/// of the pass.
pub fn run_pipeline<P: Pass>(
    pass: &mut P,
    alloc: Global,
    op: Ptr<Operation>,
    ctx: &mut Context,
    analyses: &mut AnalysisManager<P::E>,
) -> Result<IRStatus, OptError>
    requires live { IsLive ctx.old.tree op }
    requires linked { IsWellLinked P.D.meaning ctx.old.tree op }
    ensures same { DoAsBefore P.D.meaning ctx.old.tree ctx.new.tree }
    ensures liveness { IsLive ctx.new.tree op }
    ensures links { IsWellLinked P.D.meaning ctx.new.tree op }
    ensures inside { IsInsideChange ctx.old.tree ctx.new.tree op }
    ensures fresh { OnOk result (IsFresh P.E.Kind.eq P.E.kind P.E.holds ctx.old.tree analyses.old.cache.entries →
        IsFresh P.E.Kind.eq P.E.kind P.E.holds ctx.new.tree analyses.new.cache.entries) }
    ensures outcome { Steps P.E.Kind.eq ⟦<P as ManagedPass>⟧.runs pass.old pass.new op (stage ctx.old analyses.old)
        (stage ctx.new analyses.new) result }
    ensures change { IsPassChange P.D.meaning ctx.old.tree ctx.new.tree op }
{
    let answer = PassManager::run_pass(pass, alloc, op, ctx, analyses)?;
    analyses.retain_preserved(&answer);
    Ok(answer.ir_changed)
}
