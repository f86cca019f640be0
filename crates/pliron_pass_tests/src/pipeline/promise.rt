//! The promise at one root, from end to end: an operation of `Bench` that is fit to run, the three passes on
//! it in any list, and what it does afterwards.
ghost use Rattle.pliron_dialect_bench.specs.BenchMoves.{bench};
ghost use Rattle.pliron_laws.specs.Agree.{Agree};
ghost use Rattle.pliron_theory.specs.Keeps.{IsFit};

use pliron_core::{Context, IRStatus, Operation, Ptr};
use pliron_dialect_bench::Bench;
use pliron_laws::OptError;
use pliron_pass::{AnalysisManager, BenchFacts, Passes};
use pliron_pass_pipeline::{PassStep, run_pipeline};
use std::alloc::Global;

/// Runs a list of the three passes on an operation that is fit to run. Whatever this answers, the operation
/// does what it did, for all inputs and all answers of the environment, and is fit to run.
///
/// Asks that the operation is fit to run. Errors: those of the passes. Cost: that of the passes.
pub fn optimised_alike(
    passes: &mut Passes<PassStep<Bench, BenchFacts>>,
    alloc: Global,
    root: Ptr<Operation>,
    ctx: &mut Context,
    analyses: &mut AnalysisManager<BenchFacts>,
) -> Result<IRStatus, OptError>
    requires fit { IsFit bench ctx.old.tree root }
    ensures agree { Agree bench ctx.old.tree ctx.new.tree root }
    ensures stays { IsFit bench ctx.new.tree root }
{
    run_pipeline(passes, alloc, root, ctx, analyses)
}
