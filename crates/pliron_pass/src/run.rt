//! Running passes.
ghost use Rattle.std.specs.Prelude.{◌≡◌, ℕ, Bool, IfOk, OnOk, IsOk, IfErr, Result};
ghost use Rattle.pliron_core.specs.Tree.{Tree, IsLive};
ghost use Rattle.pliron_laws.specs.Linked.{IsWellLinked};
ghost use Rattle.pliron_laws.specs.declared.fault.OptError.TheVariants.{Memory};
ghost use Rattle.pliron_pass.specs.Answer.{FreshAfter, has_changed, kept_kinds};
ghost use Rattle.pliron_pass.specs.Cache.{retained, cached_kinds};
ghost use Rattle.pliron_theory.specs.Change.{IsPassChange};
ghost use Rattle.pliron_pass.specs.Combined.{IsClosed};
ghost use Rattle.pliron_pass.specs.Outcome.{IsVerified, OutcomeOf, RunsPass, RunsPlain};
ghost use Rattle.pliron_pass.specs.Stage.{stage};

use crate::kinds::AnalysisKind;
use crate::manager::AnalysisManager;
use crate::pass::Pass;
use crate::result::PassResult;
use crate::verify::{HasVerification, verify_operation};
use pliron_core::{Context, IRStatus, Operation, Ptr};
use pliron_laws::{Dialect, OptError};
use std::alloc::Global;

// Verifies the operation, where that is wanted. A fault but allocation failure becomes this one.
fn verify_if<D: Dialect>(
    wanted: bool,
    fault: OptError,
    alloc: Global,
    op: Ptr<Operation>,
    ctx: &Context,
) -> Result<(), OptError>
    requires { IsLive ctx.now.tree op }
    ensures { IsVerified ⟦<D as HasVerification>⟧.verifies fault wanted ctx.now.tree op result }
{
    if !wanted {
        return Ok(());
    }
    match verify_operation::<D>(alloc, op, ctx) {
        Ok(()) => Ok(()),
        Err(OptError::Memory) => Err(OptError::Memory),
        Err(_) => Err(fault),
    }
}

// Runs a pass that is no manager.
fn run_plain<P: Pass>(
    pass: &mut P,
    alloc: Global,
    op: Ptr<Operation>,
    ctx: &mut Context,
    analyses: &mut AnalysisManager<P::E>,
) -> Result<PassResult<<P::E as AnalysisKind>::Kind>, OptError>
    requires live { IsLive ctx.old.tree op }
    requires linked { IsWellLinked P.D.meaning ctx.old.tree op }
    ensures change { IsPassChange P.D.meaning ctx.old.tree ctx.new.tree op }
    ensures fresh { IfOk result (λ a. FreshAfter P.E.Kind.eq P.E.kind P.E.holds ctx.old.tree analyses.old.cache.entries
        ctx.new.tree analyses.new.cache.entries a) }
    ensures outcome { RunsPlain P.name P.outcome ⟦<P::D as HasVerification>⟧.verifies pass.old pass.new op
        (stage ctx.old analyses.old) (stage ctx.new analyses.new) result }
{
    let plan = analyses.pm_data.plan(pass.name());
    if plan.skips {
        return Ok(PassResult::new(alloc));
    }
    verify_if::<P::D>(plan.verifies_before, OptError::VerifyBefore, alloc, op, ctx)?;
    let result = pass.run(alloc, op, ctx, analyses);
    verify_if::<P::D>(plan.verifies_after, OptError::VerifyAfter, alloc, op, ctx)?;
    analyses.pm_data.count_run();
    result
}

/// A pass as a pass manager runs it. Each pass is; contracts alone speak of it.
pub trait ManagedPass: Pass {
    // what `PassManager::run_pass` does with it, as `Pass::outcome` says what it does itself
    ghost runs: { OutcomeOf Self Self.E.Kind Self.E };
}

impl<P: Pass> ManagedPass for P {
    ghost runs = { RunsPass P.name P.outcome ⟦<P::D as HasVerification>⟧.verifies P.is_pass_manager };
}

/// Runs passes by the configuration.
pub struct PassManager;

impl PassManager {
    /// Runs a pass. A pass manager is run as it is. Any other one is skipped where the configuration names
    /// it; else the operation is verified before and after where the configuration says so, also where the
    /// run failed, and the run is counted.
    ///
    /// Asks that the operation is live and is well linked. Errors: those of the pass; a fault of verifying but
    /// allocation failure as `VerifyBefore`, with nothing run, or as `VerifyAfter`, with nothing counted. Cost:
    /// that of the pass, one of `verify_operation` for each time that it verifies, and a few look-ups.
    pub fn run_pass<P: Pass>(
        pass: &mut P,
        alloc: Global,
        op: Ptr<Operation>,
        ctx: &mut Context,
        analyses: &mut AnalysisManager<P::E>,
    ) -> Result<PassResult<<P::E as AnalysisKind>::Kind>, OptError>
        requires live { IsLive ctx.old.tree op }
        requires linked { IsWellLinked P.D.meaning ctx.old.tree op }
        ensures change { IsPassChange P.D.meaning ctx.old.tree ctx.new.tree op }
        ensures fresh { IfOk result (λ a. FreshAfter P.E.Kind.eq P.E.kind P.E.holds ctx.old.tree
            analyses.old.cache.entries ctx.new.tree analyses.new.cache.entries a) }
        ensures outcome { ⟦<P as ManagedPass>⟧.runs pass.old pass.new op (stage ctx.old analyses.old)
            (stage ctx.new analyses.new) result }
    {
        if pass.is_pass_manager() {
            pass.run(alloc, op, ctx, analyses)
        } else {
            run_plain(pass, alloc, op, ctx, analyses)
        }
    }
}

/// Ends what ran inner passes: the answer preserves all that is cached, and after an error the cache is
/// empty.
///
/// Errors: the error that it is given, or allocation failure. Cost: the number of entries in the cache.
pub fn close<E: AnalysisKind + Drop>(
    ran: Result<IRStatus, OptError>,
    analyses: &mut AnalysisManager<E>,
) -> Result<PassResult<E::Kind>, OptError>
    ensures data { analyses.new.pm_data ≡ analyses.old.pm_data }
    ensures kept { IfOk result (λ r. retained E.Kind.eq (has_changed r) (kept_kinds r) analyses.new.cache.entries
        ≡ analyses.old.cache.entries) }
    ensures ok { OnOk result (IsOk ran) }
    ensures closed { IsClosed E.Kind.eq ran analyses.old.cache.entries analyses.new.cache.entries result }
{
    let answer = match ran {
        Ok(changed) => analyses.keep_all(changed),
        Err(fault) => Err(fault),
    };
    match answer {
        Ok(answer) => Ok(answer),
        Err(fault) => {
            analyses.clear();
            Err(fault)
        }
    }
}
