//! Passes in turn.
ghost use Rattle.std.specs.Prelude.{◌≡◌, ◌++◌, ◌∷◌, ℕ, true, List, OnOk, OnErr, IfErr, []};
ghost use Rattle.pliron_core.specs.Tree.{IsLive};
ghost use Rattle.pliron_laws.specs.Linked.{IsWellLinked};
ghost use Rattle.pliron_pass.specs.Cache.{IsFresh};
ghost use Rattle.pliron_theory.specs.Change.{IsPassChange};
ghost use Rattle.pliron_pass.specs.Combined.{Closes, RunsEachOf, passes_name};
ghost use Rattle.pliron_pass.specs.Stage.{stage};

use crate::headline::run_pipeline;
use crate::kinds::AnalysisKind;
use crate::manager::AnalysisManager;
use crate::pass::Pass;
use crate::result::PassResult;
use crate::run::{ManagedPass, close};
use pliron_core::{Context, IRStatus, Operation, Ptr};
use pliron_laws::OptError;
use std::alloc::{AllocFailed, Global};

/// Runs passes in turn.
#[derive(Drop)]
pub struct Passes<P: Pass> {
    passes: Vec<P>,
}

impl<P: Pass> Passes<P> {
    /// No passes. Cost: constant.
    pub fn new(alloc: Global) -> Self
        ensures { result.passes.items ≡ [] }
    {
        Passes {
            passes: Vec::new(alloc),
        }
    }

    /// Adds a pass at the end. Errors: allocation failure, where the pass comes back as the error's `value`, and
    /// the list is as it was; `?` makes `OptError::Memory` of it. Cost: constant, amortised.
    pub fn add_pass(&mut self, pass: P) -> Result<(), AllocFailed<P>>
        ensures added { OnOk result (self.new.passes.items ≡ self.old.passes.items ++ pass ∷ []) }
        ensures refused { OnErr result (self.new.passes.items ≡ self.old.passes.items) }
        ensures back { IfErr result (λ refused. refused.value ≡ pass) }
    {
        self.passes.push(pass)
    }

    /// The passes in turn, as they are now: after a run, as it left them. Cost: constant.
    pub fn passes(&self) -> &[P]
        ensures { result.now ≡ self.now.passes.items }
    {
        &self.passes
    }
}

// Runs these passes in turn.
fn run_all<P: Pass>(
    passes: &mut Vec<P>,
    alloc: Global,
    op: Ptr<Operation>,
    ctx: &mut Context,
    analyses: &mut AnalysisManager<P::E>,
) -> Result<IRStatus, OptError>
    requires live { IsLive ctx.old.tree op }
    requires linked { IsWellLinked P.D.meaning ctx.old.tree op }
    ensures change { IsPassChange P.D.meaning ctx.old.tree ctx.new.tree op }
    ensures fresh { OnOk result (IsFresh P.E.Kind.eq P.E.kind P.E.holds ctx.old.tree analyses.old.cache.entries →
        IsFresh P.E.Kind.eq P.E.kind P.E.holds ctx.new.tree analyses.new.cache.entries) }
    ensures outcome { RunsEachOf P.E.Kind.eq ⟦<P as ManagedPass>⟧.runs op passes.old.items passes.new.items
        (stage ctx.old analyses.old) (stage ctx.new analyses.new) result }
{
    let mut changed = IRStatus::Unchanged;
    for i in 0..passes.len() {
        changed |= run_pipeline(&mut passes[i], alloc, op, ctx, analyses)?;
    }
    Ok(changed)
}

impl<P: Pass> Pass for Passes<P> {
    type D = P::D;

    type E = P::E;

    ghost is_pass_manager = { λ p. true };

    ghost name = { λ p. passes_name };

    ghost outcome = { λ p p' op s s' r. Closes P.E.Kind.eq (λ u ran. RunsEachOf P.E.Kind.eq ⟦<P as ManagedPass>⟧.runs op
        p.passes.items p'.passes.items s u ran) s' r };

    fn name(&self) -> &str {
        "passes"
    }

    fn run(
        &mut self,
        alloc: Global,
        op: Ptr<Operation>,
        ctx: &mut Context,
        analyses: &mut AnalysisManager<P::E>,
    ) -> Result<PassResult<<P::E as AnalysisKind>::Kind>, OptError> {
        let ran = run_all(&mut self.passes, alloc, op, ctx, analyses);
        close(ran, analyses)
    }

    fn is_pass_manager(&self) -> bool {
        true
    }
}
