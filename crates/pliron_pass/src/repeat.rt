//! A pass again and again.
ghost use Rattle.std.specs.Prelude.{◌≡◌, ◌≤◌, ℕ, true, OnOk};
ghost use Rattle.pliron_core.specs.Tree.{IsLive};
ghost use Rattle.pliron_laws.specs.Linked.{IsWellLinked};
ghost use Rattle.pliron_pass.specs.Cache.{IsFresh};
ghost use Rattle.pliron_theory.specs.Change.{IsPassChange};
ghost use Rattle.pliron_pass.specs.Combined.{Closes};
ghost use Rattle.pliron_pass.specs.Repeating.{RepeatsTo, repeat_name};
ghost use Rattle.pliron_pass.specs.Stage.{stage};

use crate::headline::run_pipeline;
use crate::kinds::AnalysisKind;
use crate::manager::AnalysisManager;
use crate::pass::Pass;
use crate::result::PassResult;
use crate::run::{ManagedPass, close};
use pliron_core::{Context, IRStatus, Operation, Ptr};
use pliron_laws::OptError;
use std::alloc::Global;

/// Runs a pass until it changes nothing, or as often as it may.
#[derive(Drop)]
pub struct Repeat<P: Pass> {
    max: usize,
    runs: usize,
    pass: P,
}

impl<P: Pass> Repeat<P> {
    /// The pass at most `max` times. Cost: constant.
    pub fn new(max: usize, pass: P) -> Self
        ensures max { result.max ≡ max }
        ensures runs { result.runs ≡ 0 }
        ensures pass { result.pass ≡ pass }
    {
        Repeat { max, runs: 0, pass }
    }

    /// How many inner runs the latest run began; 0 before any. Cost: constant.
    pub fn runs(&self) -> usize
        ensures { result ≡ self.now.runs }
    {
        self.runs
    }

    /// The pass that it runs, as it is now: after a run, as the last inner run left it. Cost: constant.
    pub fn pass(&self) -> &P
        ensures { result.now ≡ self.now.pass }
    {
        &self.pass
    }
}

// Runs the pass while it changes something, as often as it may, and counts the runs.
fn run_repeated<P: Pass>(
    repeat: &mut Repeat<P>,
    alloc: Global,
    op: Ptr<Operation>,
    ctx: &mut Context,
    analyses: &mut AnalysisManager<P::E>,
) -> Result<IRStatus, OptError>
    requires live { IsLive ctx.old.tree op }
    requires linked { IsWellLinked P.D.meaning ctx.old.tree op }
    ensures change { IsPassChange P.D.meaning ctx.old.tree ctx.new.tree op }
    ensures fresh { OnOk result (IsFresh P.E.Kind.eq P.E.kind P.E.holds ctx.old.tree analyses.old.cache.entries →
        IsFresh P.E.Kind.eq P.E.kind P.E.holds ctx.new.tree analyses.new.cache.entries) }
    ensures outcome { RepeatsTo P.E.Kind.eq ⟦<P as ManagedPass>⟧.runs repeat.old.max op repeat.old.pass repeat.new.pass
        (stage ctx.old analyses.old) repeat.new.runs (stage ctx.new analyses.new) result }
    ensures max { repeat.new.max ≡ repeat.old.max }
    ensures at_most { repeat.new.runs ≤ repeat.old.max }
{
    let mut changed = IRStatus::Unchanged;
    repeat.runs = 0;
    while repeat.runs < repeat.max {
        repeat.runs += 1;
        match run_pipeline(&mut repeat.pass, alloc, op, ctx, analyses)? {
            IRStatus::Unchanged => return Ok(changed),
            IRStatus::Changed => changed = IRStatus::Changed,
        }
    }
    Ok(changed)
}

impl<P: Pass> Pass for Repeat<P> {
    type D = P::D;

    type E = P::E;

    ghost is_pass_manager = { λ p. true };

    ghost name = { λ p. repeat_name };

    ghost outcome = { λ p p' op s s' r. (p'.max ≡ p.max) × (p'.runs ≤ p.max) × Closes P.E.Kind.eq
        (λ u ran. RepeatsTo P.E.Kind.eq ⟦<P as ManagedPass>⟧.runs p.max op p.pass p'.pass s p'.runs u ran) s' r };

    fn name(&self) -> &str {
        "repeat"
    }

    fn run(
        &mut self,
        alloc: Global,
        op: Ptr<Operation>,
        ctx: &mut Context,
        analyses: &mut AnalysisManager<P::E>,
    ) -> Result<PassResult<<P::E as AnalysisKind>::Kind>, OptError> {
        let ran = run_repeated(self, alloc, op, ctx, analyses);
        close(ran, analyses)
    }

    fn is_pass_manager(&self) -> bool {
        true
    }
}
