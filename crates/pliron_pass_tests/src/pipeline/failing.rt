//! A pass of a caller that fails after another one ran.
ghost use Rattle.std.specs.Prelude.{MatchResult, false, [], ◌∷◌, ⊤};

use pliron_core::{Context, Operation, Ptr};
use pliron_pass::{AnalysisKind, AnalysisManager, OptError, Pass, PassResult};
use std::alloc::Global;

/// Runs a pass, and answers a fault with its code where that one answered none.
#[derive(Drop)]
pub struct FailAfter<P: Pass> {
    pub code: u32,
    pub pass: P,
}

impl<P: Pass> Pass for FailAfter<P> {
    type D = P::D;

    type E = P::E;

    ghost is_pass_manager = { λ p. false };

    ghost name = { λ p. 0x66 ∷ 0x61 ∷ 0x69 ∷ 0x6c ∷ 0x5f ∷ 0x61 ∷ 0x66 ∷ 0x74 ∷ 0x65 ∷ 0x72 ∷ [] };

    // it always answers a fault
    ghost outcome = { λ p p' op s s' r. MatchResult r (λ _. ⊥) (λ _. ⊤) };

    fn name(&self) -> &str {
        "fail_after"
    }

    fn run(
        &mut self,
        alloc: Global,
        op: Ptr<Operation>,
        ctx: &mut Context,
        analyses: &mut AnalysisManager<P::E>,
    ) -> Result<PassResult<<P::E as AnalysisKind>::Kind>, OptError> {
        match self.pass.run(alloc, op, ctx, analyses) {
            Ok(_) => Err(OptError::Pass(self.code)),
            Err(fault) => Err(fault),
        }
    }

    fn is_pass_manager(&self) -> bool {
        false
    }
}
