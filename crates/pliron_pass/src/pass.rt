//! Passes.
ghost use Rattle.std.specs.Prelude.{◌≡◌, ℕ, Bool, List, IfOk, Result};
ghost use Rattle.pliron_core.specs.Tree.{Tree, IsLive};
ghost use Rattle.pliron_laws.specs.Linked.{IsWellLinked};
ghost use Rattle.pliron_laws.specs.declared.fault.OptError.{OptError as FaultName};
ghost use Rattle.pliron_pass.specs.declared.result.PassResult.{PassResult as AnswerOf};
ghost use Rattle.pliron_pass.specs.Answer.{FreshAfter};
ghost use Rattle.pliron_theory.specs.Change.{IsPassChange};
ghost use Rattle.pliron_pass.specs.Stage.{Stage, stage};

use crate::analyses::Analyses;
use crate::kinds::AnalysisKind;
use crate::manager::AnalysisManager;
use crate::result::PassResult;
use pliron_core::{Context, Operation, Ptr};
use pliron_laws::{Dialect, OptError};
use std::alloc::Global;

/// What is run on an operation.
pub trait Pass {
    type D: Dialect;

    type E: Analyses + Drop;

    // whether it runs other passes
    ghost is_pass_manager: { Self → Bool };

    ghost name: { Self → List ℕ };

    // itself before and after, the operation, what it finds and leaves, and its answer
    ghost outcome: { Self → Self → ℕ → Stage Self.E.Kind Self.E → Stage Self.E.Kind Self.E → Result
        (AnswerOf Self.E.Kind) FaultName → Type 0 };

    /// The name of the pass.
    fn name(&self) -> &str
        ensures { result.now ≡ name self.now };

    /// Runs the pass on the operation. The cache is to keep what the answer preserves.
    ///
    /// Asks that the operation is live and is well linked. Errors: those of the pass.
    fn run(
        &mut self,
        alloc: Global,
        op: Ptr<Operation>,
        ctx: &mut Context,
        analyses: &mut AnalysisManager<Self::E>,
    ) -> Result<PassResult<<Self::E as AnalysisKind>::Kind>, OptError>
        requires live { IsLive ctx.old.tree op }
        requires linked { IsWellLinked Self.D.meaning ctx.old.tree op }
        ensures change { IsPassChange Self.D.meaning ctx.old.tree ctx.new.tree op }
        ensures fresh { IfOk result (λ a. FreshAfter Self.E.Kind.eq Self.E.kind Self.E.holds ctx.old.tree
            analyses.old.cache.entries ctx.new.tree analyses.new.cache.entries a) }
        ensures outcome { outcome self.old self.new op (stage ctx.old analyses.old) (stage ctx.new analyses.new)
            result };

    /// Whether it runs other passes, by `PassManager::run_pass`.
    fn is_pass_manager(&self) -> bool
        ensures { result ≡ is_pass_manager self.now };
}
