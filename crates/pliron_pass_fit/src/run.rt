//! Passes on a tree of which nothing is known.
ghost use Rattle.std.specs.Prelude.{◌≡◌, ◌↔◌, ℕ, Err, OnOk, IfOk, IfErr};
ghost use Rattle.pliron_core.specs.Tree.{In, IsLive};
ghost use Rattle.pliron_core.specs.Changes.{IsInsideChange};
ghost use Rattle.pliron_laws.specs.Agree.{Agree};
ghost use Rattle.pliron_laws.specs.Linked.{IsWellLinked};
ghost use Rattle.pliron_theory.specs.Change.{IsPassChange};
ghost use Rattle.pliron_theory.specs.Keeps.{IsFit};
ghost use Rattle.pliron_pass.specs.Cache.{IsFresh};
ghost use Rattle.pliron_pass.specs.Stage.{stage};
ghost use Rattle.pliron_pass.specs.Headline.{DoAsBefore};
ghost use Rattle.pliron_pass_fit.specs.Checked.{RunsOnce, RunsOnceFor};
ghost use Rattle.pliron_pass_fit.specs.Chosen.{AreChosen};
ghost use Rattle.pliron_pass_fit.specs.declared.run.RunError.TheVariants.{NotLinked, Fault as PassFault};

use crate::find::fit_roots;
use pliron_core::{Context, IRStatus, Operation, Ptr};
use pliron_laws::{Dialect, OptError, is_well_linked};
use pliron_pass::{AnalysisManager, ManagedPass, Pass, run_pipeline};
use std::alloc::Global;
use thiserror::Error;

/// Why a checked run gave up.
#[derive(Clone, Copy, Debug, Drop, PartialEq, Eq, Error)]
pub enum RunError {
    /// The tree is not well linked at the operation, and nothing was run.
    #[error("the tree is not well linked at the operation")]
    NotLinked,
    /// The pass failed.
    #[error("{0}")]
    Fault(OptError),
}

impl From<OptError> for RunError {
    ghost from_gives = { λ e r. r ≡ PassFault e };

    fn from(fault: OptError) -> RunError {
        RunError::Fault(fault)
    }
}

// The tree is well linked at the operation.
fn check_linked<D: Dialect>(op: Ptr<Operation>, ctx: &Context) -> Result<(), RunError>
    requires { IsLive ctx.now.tree op }
    ensures linked { OnOk result (IsWellLinked D.meaning ctx.now.tree op) }
    ensures refused { IfErr result (λ e. (e ≡ NotLinked) × (IsWellLinked D.meaning ctx.now.tree op → ⊥)) }
{
    if is_well_linked::<D>(op, ctx) {
        Ok(())
    } else {
        Err(RunError::NotLinked)
    }
}

/// Runs a pass on the operation, as `run_pipeline` does, where the tree is well linked there.
///
/// Whatever this answers, each operation that was fit to run (`is_fit` tests it) and is still live does exactly
/// what it did, the operation is live, and outside it only operands change that named a value defined inside it.
/// What was done is the pass's own outcome. Without an error, a cache that was fresh is fresh.
///
/// Asks that the operation is live. Errors: `NotLinked` exactly where the tree is not well linked at the
/// operation, and then nothing changed, neither the tree nor the pass nor the cache; else those of
/// `run_pipeline`. Cost: that of `is_well_linked` and of the pass.
pub fn run_checked<P: Pass>(
    pass: &mut P,
    alloc: Global,
    op: Ptr<Operation>,
    ctx: &mut Context,
    analyses: &mut AnalysisManager<P::E>,
) -> Result<IRStatus, RunError>
    requires { IsLive ctx.old.tree op }
    ensures same { DoAsBefore P.D.meaning ctx.old.tree ctx.new.tree }
    ensures liveness { IsLive ctx.new.tree op }
    ensures inside { IsInsideChange ctx.old.tree ctx.new.tree op }
    ensures fresh { OnOk result (IsFresh P.E.Kind.eq P.E.kind P.E.holds ctx.old.tree analyses.old.cache.entries →
        IsFresh P.E.Kind.eq P.E.kind P.E.holds ctx.new.tree analyses.new.cache.entries) }
    ensures outcome { IsWellLinked P.D.meaning ctx.old.tree op → RunsOnce P.E.Kind.eq ⟦<P as ManagedPass>⟧.runs
        pass.old pass.new op (stage ctx.old analyses.old) (stage ctx.new analyses.new) result }
    ensures refused { (result ≡ Err NotLinked) ↔ (IsWellLinked P.D.meaning ctx.old.tree op → ⊥) }
    ensures untouched { (IsWellLinked P.D.meaning ctx.old.tree op → ⊥) → (ctx.new ≡ ctx.old) × (pass.new ≡ pass.old)
        × (analyses.new ≡ analyses.old) }
    ensures change { IsWellLinked P.D.meaning ctx.old.tree op → IsPassChange P.D.meaning ctx.old.tree ctx.new.tree op }
{
    check_linked::<P::D>(op, ctx)?;
    let status = run_pipeline(pass, alloc, op, ctx, analyses)?;
    Ok(status)
}

/// The outcome of a checked run that was to report which roots were fit.
#[derive(Drop)]
pub struct CheckedRun {
    /// Whether the tree changed.
    pub status: IRStatus,
    /// Those of the roots that were fit to run before.
    pub fit: Vec<Ptr<Operation>>,
}

/// Runs a pass on the operation, as `run_checked` does, and reports which of these roots were fit to run before, in
/// their order: each of them that is still live does exactly what it did, and is fit to run.
///
/// Asks that the operation is live (`is_live` tests it). Errors: `NotLinked` exactly where the tree is not well
/// linked at the operation, and then nothing changed, neither the tree nor the pass nor the cache; allocation failure,
/// also before anything was run, and then nothing changed; else those of `run_pipeline`. Cost: that of
/// `run_checked`, and of `is_fit` for each of the roots.
pub fn run_checked_for<P: Pass>(
    pass: &mut P,
    alloc: Global,
    op: Ptr<Operation>,
    roots: &[Ptr<Operation>],
    ctx: &mut Context,
    analyses: &mut AnalysisManager<P::E>,
) -> Result<CheckedRun, RunError>
    requires { IsLive ctx.old.tree op }
    ensures fit { IfOk result (λ run. AreChosen (IsFit P.D.meaning ctx.old.tree) roots.now run.fit.items) }
    ensures kept { IfOk result (λ run. (root : ℕ) → In root run.fit.items → IsLive ctx.new.tree root →
        Agree P.D.meaning ctx.old.tree ctx.new.tree root × IsFit P.D.meaning ctx.new.tree root) }
    ensures same { DoAsBefore P.D.meaning ctx.old.tree ctx.new.tree }
    ensures liveness { IsLive ctx.new.tree op }
    ensures inside { IsInsideChange ctx.old.tree ctx.new.tree op }
    ensures fresh { OnOk result (IsFresh P.E.Kind.eq P.E.kind P.E.holds ctx.old.tree analyses.old.cache.entries →
        IsFresh P.E.Kind.eq P.E.kind P.E.holds ctx.new.tree analyses.new.cache.entries) }
    ensures outcome { IsWellLinked P.D.meaning ctx.old.tree op → RunsOnceFor P.E.Kind.eq ⟦<P as ManagedPass>⟧.runs
        pass.old pass.new op (stage ctx.old analyses.old) (stage ctx.new analyses.new) result }
    ensures refused { (result ≡ Err NotLinked) ↔ (IsWellLinked P.D.meaning ctx.old.tree op → ⊥) }
    ensures untouched { (IsWellLinked P.D.meaning ctx.old.tree op → ⊥) → (ctx.new ≡ ctx.old) × (pass.new ≡ pass.old)
        × (analyses.new ≡ analyses.old) }
    ensures change { IsWellLinked P.D.meaning ctx.old.tree op → IsPassChange P.D.meaning ctx.old.tree ctx.new.tree op }
{
    check_linked::<P::D>(op, ctx)?;
    let fit = fit_roots::<P::D>(alloc, roots, ctx)?;
    let ran = run_pipeline(pass, alloc, op, ctx, analyses)?;
    Ok(CheckedRun { status: ran, fit })
}
