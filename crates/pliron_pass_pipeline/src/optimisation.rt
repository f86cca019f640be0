//! What a pass asks of an optimisation, and the pass.
ghost use Rattle.std.specs.Prelude.{◌≡◌, ℕ, false, [], List, IfOk, Result};
ghost use Rattle.pliron_core.specs.Tree.{Tree, IsLive};
ghost use Rattle.pliron_laws.specs.Linked.{IsWellLinked};
ghost use Rattle.pliron_laws.specs.declared.fault.OptError.{OptError as FaultName};
ghost use Rattle.pliron_theory.specs.Change.{IsPassChange};
ghost use Rattle.pliron_pass.specs.Answer.{has_changed, kept_kinds};
ghost use Rattle.pliron_pass_pipeline.specs.Optimising.{IsAccurateAnswer, RunsOptimisation};
ghost use Rattle.pliron_pass_pipeline.specs.declared.optimisation.Effect.{Effect as EffectOf};

use pliron_core::{Context, IRStatus, Operation, Ptr};
use pliron_laws::{Dialect, OptError};
use pliron_pass::{Analyses, AnalysisKind, AnalysisManager, Pass, PassResult};
use std::alloc::Global;
use std::hash::Hash;
use std::marker::PhantomData;

/// What an optimisation reports of the tree.
#[derive(Drop)]
pub struct Effect {
    /// Whether the tree changed.
    pub status: IRStatus,
    /// Whether the blocks and edges inside each live operation are as before.
    pub keeps_edges: bool,
}

/// An optimisation, as a pass asks for it.
pub trait Optimisation {
    type D: Dialect;

    ghost name: { List ℕ };

    // what it makes of a tree, and its answer
    ghost outcome: { Tree → Tree → ℕ → Result EffectOf FaultName → Type 0 };

    /// The name of the pass.
    fn name() -> &'static str
        ensures { result.now ≡ name };

    /// Optimises the operation, and reports what changed. Asks that it is live and is well linked. Errors:
    /// those of the optimisation.
    fn optimise(alloc: Global, op: Ptr<Operation>, ctx: &mut Context) -> Result<Effect, OptError>
        requires live { IsLive ctx.old.tree op }
        requires linked { IsWellLinked Self.D.meaning ctx.old.tree op }
        ensures change { IsPassChange Self.D.meaning ctx.old.tree ctx.new.tree op }
        ensures accurate { IfOk result (λ effect. IsAccurateAnswer ctx.old.tree ctx.new.tree effect) }
        ensures outcome { outcome ctx.old.tree ctx.new.tree op result };
}

/// The pass of an optimisation. Where all edges stay it preserves the cached kinds of analyses that read
/// edges alone, else none.
#[derive(Drop)]
pub struct OptimisingPass<O: Optimisation, E: Analyses + Drop> {
    of: PhantomData<O>,
    on: PhantomData<E>,
}

impl<O: Optimisation, E: Analyses + Drop> OptimisingPass<O, E> {
    /// The pass, which has no state. Cost: constant.
    pub fn new() -> Self {
        OptimisingPass {
            of: PhantomData,
            on: PhantomData,
        }
    }
}

impl<O: Optimisation, E: Analyses + Drop> Default for OptimisingPass<O, E> {
    fn default() -> Self {
        OptimisingPass::new()
    }
}

// The answer with this status that preserves nothing.
fn preserving_none<K: Copy + Eq + Hash>(alloc: Global, status: IRStatus) -> PassResult<K>
    ensures changed { has_changed result ≡ status }
    ensures kept { kept_kinds result ≡ [] }
{
    let mut answer = PassResult::new(alloc);
    answer.ir_changed = status;
    answer
}

impl<O: Optimisation, E: Analyses + Drop> Pass for OptimisingPass<O, E> {
    type D = O::D;

    type E = E;

    ghost is_pass_manager = { λ p. false };

    ghost name = { λ p. O.name };

    ghost outcome = { λ p p' op s s' r. RunsOptimisation E.Kind.eq E.reads_edges_alone O.outcome op s s' r };

    fn name(&self) -> &str {
        O::name()
    }

    fn run(
        &mut self,
        alloc: Global,
        op: Ptr<Operation>,
        ctx: &mut Context,
        analyses: &mut AnalysisManager<E>,
    ) -> Result<PassResult<<E as AnalysisKind>::Kind>, OptError> {
        ctx.well_formed();
        let effect = O::optimise(alloc, op, ctx)?;
        ctx.well_formed();
        if effect.keeps_edges {
            analyses.keep_edge_kinds(effect.status)
        } else {
            Ok(preserving_none(alloc, effect.status))
        }
    }

    fn is_pass_manager(&self) -> bool {
        false
    }
}
