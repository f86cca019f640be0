//! Passes of a caller, and the caller's enum that hands each call on.
ghost use Rattle.std.specs.Prelude.{◌≡◌, ℕ, ◌+◌, ◌^◌, ◌-◌, Bool, false, [], ◌∷◌, Err, min};
ghost use Rattle.pliron_laws.specs.declared.fault.OptError.TheVariants.{Pass as Code};
ghost use Rattle.pliron_pass_tests.specs.declared.passes.Step.TheVariants.{Idle as AIdle, Touch as ATouch, Fail as AFail, Tally as ATally};

use super::facts::Fact;
use pliron_core::{Context, IRStatus, Operation, Ptr};
use pliron_dialect_bench::Bench;
use pliron_pass::{AnalysisManager, OptError, Pass, PassResult};
use std::alloc::Global;

/// Does nothing.
#[derive(Default, Drop)]
pub struct Idle;

impl Pass for Idle {
    type D = Bench;

    type E = Fact;

    ghost is_pass_manager = { λ p. false };

    ghost name = { λ p. 0x69 ∷ 0x64 ∷ 0x6c ∷ 0x65 ∷ [] };

    ghost outcome = { λ p p' op s s' r. s' ≡ s };

    fn name(&self) -> &str {
        "idle"
    }

    #[tactic(auto, using(pliron_theory::proofs::ChangeLemmas::change_refl))]
    fn run(
        &mut self,
        alloc: Global,
        _op: Ptr<Operation>,
        _ctx: &mut Context,
        _analyses: &mut AnalysisManager<Fact>,
    ) -> Result<PassResult<u32>, OptError> {
        Ok(PassResult::new(alloc))
    }

    fn is_pass_manager(&self) -> bool {
        false
    }
}

/// Counts its runs.
#[derive(Drop)]
pub struct Tally {
    pub runs: usize,
}

impl Pass for Tally {
    type D = Bench;

    type E = Fact;

    ghost is_pass_manager = { λ p. false };

    ghost name = { λ p. 0x74 ∷ 0x61 ∷ 0x6c ∷ 0x6c ∷ 0x79 ∷ [] };

    ghost outcome = { λ p p' op s s' r. (p'.runs ≡ min (p.runs + 1) (2 ^ 64 - 1)) × (s' ≡ s) };

    fn name(&self) -> &str {
        "tally"
    }

    #[tactic(auto, using(pliron_theory::proofs::ChangeLemmas::change_refl))]
    fn run(
        &mut self,
        alloc: Global,
        _op: Ptr<Operation>,
        _ctx: &mut Context,
        _analyses: &mut AnalysisManager<Fact>,
    ) -> Result<PassResult<u32>, OptError> {
        self.runs = self.runs.saturating_add(1);
        Ok(PassResult::new(alloc))
    }

    fn is_pass_manager(&self) -> bool {
        false
    }
}

/// Answers `Changed`, and that the cached kinds stay which read edges alone.
#[derive(Drop)]
pub struct Touch;

impl Pass for Touch {
    type D = Bench;

    type E = Fact;

    ghost is_pass_manager = { λ p. false };

    ghost name = { λ p. 0x74 ∷ 0x6f ∷ 0x75 ∷ 0x63 ∷ 0x68 ∷ [] };

    ghost outcome = { λ p p' op s s' r. s' ≡ s };

    fn name(&self) -> &str {
        "touch"
    }

    #[tactic(auto, using(pliron_theory::proofs::ChangeLemmas::change_refl))]
    fn run(
        &mut self,
        _alloc: Global,
        _op: Ptr<Operation>,
        ctx: &mut Context,
        analyses: &mut AnalysisManager<Fact>,
    ) -> Result<PassResult<u32>, OptError> {
        ctx.well_formed();
        analyses.keep_edge_kinds(IRStatus::Changed)
    }

    fn is_pass_manager(&self) -> bool {
        false
    }
}

/// Answers a fault with its code.
#[derive(Drop)]
pub struct FailAlways {
    pub code: u32,
}

impl Pass for FailAlways {
    type D = Bench;

    type E = Fact;

    ghost is_pass_manager = { λ p. false };

    ghost name = { λ p. 0x66 ∷ 0x61 ∷ 0x69 ∷ 0x6c ∷ [] };

    ghost outcome = { λ p p' op s s' r. (r ≡ Err (Code p.code)) × (s' ≡ s) };

    fn name(&self) -> &str {
        "fail"
    }

    #[tactic(auto, using(pliron_theory::proofs::ChangeLemmas::change_refl))]
    fn run(
        &mut self,
        _alloc: Global,
        _op: Ptr<Operation>,
        _ctx: &mut Context,
        _analyses: &mut AnalysisManager<Fact>,
    ) -> Result<PassResult<u32>, OptError> {
        Err(OptError::Pass(self.code))
    }

    fn is_pass_manager(&self) -> bool {
        false
    }
}

/// One of these passes.
#[derive(Drop)]
pub enum Step {
    Idle(Idle),
    Touch(Touch),
    Fail(FailAlways),
    Tally(Tally),
}

impl Pass for Step {
    type D = Bench;

    type E = Fact;

    ghost is_pass_manager = { λ p. false };

    ghost name = { elim [
      | AIdle p ↦ 0x69 ∷ 0x64 ∷ 0x6c ∷ 0x65 ∷ []
      | ATouch p ↦ 0x74 ∷ 0x6f ∷ 0x75 ∷ 0x63 ∷ 0x68 ∷ []
      | AFail p ↦ 0x66 ∷ 0x61 ∷ 0x69 ∷ 0x6c ∷ []
      | ATally p ↦ 0x74 ∷ 0x61 ∷ 0x6c ∷ 0x6c ∷ 0x79 ∷ []
    ] };

    ghost outcome = { elim [
      | AIdle p ↦ elim [
        | AIdle q ↦ ⟦<Idle as Pass>⟧.outcome p q
        | ATouch q ↦ λ op s s' r. ⊥
        | AFail q ↦ λ op s s' r. ⊥
        | ATally q ↦ λ op s s' r. ⊥
      ]
      | ATouch p ↦ elim [
        | AIdle q ↦ λ op s s' r. ⊥
        | ATouch q ↦
            ⟦<Touch as Pass>⟧.outcome p q
        | AFail q ↦ λ op s s' r. ⊥
        | ATally q ↦ λ op s s' r. ⊥
      ]
      | AFail p ↦ elim [
        | AIdle q ↦ λ op s s' r. ⊥
        | ATouch q ↦ λ op s s' r. ⊥
        | AFail q ↦ ⟦<FailAlways as Pass>⟧.outcome p q
        | ATally q
            ↦ λ op s s' r. ⊥
      ]
      | ATally p ↦ elim [
        | AIdle q ↦ λ op s s' r. ⊥
        | ATouch q ↦ λ op s s' r. ⊥
        | AFail q ↦
            λ op s s' r. ⊥
        | ATally q ↦ ⟦<Tally as Pass>⟧.outcome p q
      ]
    ] };

    fn name(&self) -> &str {
        match self {
            Step::Idle(pass) => pass.name(),
            Step::Touch(pass) => pass.name(),
            Step::Fail(pass) => pass.name(),
            Step::Tally(pass) => pass.name(),
        }
    }

    fn run(
        &mut self,
        alloc: Global,
        op: Ptr<Operation>,
        ctx: &mut Context,
        analyses: &mut AnalysisManager<Fact>,
    ) -> Result<PassResult<u32>, OptError> {
        match self {
            Step::Idle(pass) => pass.run(alloc, op, ctx, analyses),
            Step::Touch(pass) => pass.run(alloc, op, ctx, analyses),
            Step::Fail(pass) => pass.run(alloc, op, ctx, analyses),
            Step::Tally(pass) => pass.run(alloc, op, ctx, analyses),
        }
    }

    fn is_pass_manager(&self) -> bool {
        false
    }
}
