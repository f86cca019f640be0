//! The pipeline that a text asks for, of whatever steps.
ghost use Rattle.std.specs.Prelude.{◌≡◌, map, IfNone, IfOk, IfSome};
ghost use Rattle.pliron_pass_pipeline.specs.PassNames.{IsNoPass};
ghost use Rattle.pliron_pass_pipeline.specs.Pipelines.{IsPipelineOf, is_nested, passes_in, passes_of as listed_passes, round_of, runs_of};

use crate::program::PipelineText;
use pliron_dialect_edges::BranchesAtOnce;
use pliron_laws::Dialect;
use pliron_pass::{BenchFacts, Either, NestedOpsPass, Pass, Passes, Repeat};
use pliron_pass_pipeline::{PassStep, Pipeline, Round, Step};
use pliron_rewrite_rules::Rules;
use std::alloc::{AllocError, Global};
use std::marker::PhantomData;

/// What makes the step of each name of a pass.
pub trait StepFactory {
    type S: Step;

    /// The step of this name; `None` where no pass has it. Cost: constant.
    fn step(&self, alloc: Global, name: &str) -> Option<Self::S>
        ensures named { IfSome result (λ step. Self.S.name step ≡ name.now) }
        ensures unknown { IfNone result (IsNoPass name.now) };
}

/// Makes the passes of a dialect as they are.
#[derive(Drop)]
pub struct PlainPasses<D, L>(pub PhantomData<(D, L)>);

impl<D: Dialect + BranchesAtOnce, L: Rules<D>> StepFactory for PlainPasses<D, L> {
    type S = PassStep<D, BenchFacts, L>;

    fn step(&self, _: Global, name: &str) -> Option<PassStep<D, BenchFacts, L>> {
        PassStep::from_name(name)
    }
}

// The steps of these names in turn, if each is the name of a pass.
fn passes<F: StepFactory>(
    alloc: Global,
    names: &[&str],
    factory: &F,
) -> Result<Option<Passes<F::S>>, AllocError>
    ensures { IfOk result (λ found. IfSome found (λ passes. map F.S.name passes.passes.items ≡ map (λ name. name.now)
        names.now)) }
{
    let mut passes = Passes::new(alloc);
    for name in names {
        let Some(step) = factory.step(alloc, name) else {
            return Ok(None);
        };
        if passes.add_pass(step).is_err() {
            return Err(AllocError);
        }
    }
    Ok(Some(passes))
}

// The steps on an operation itself, or on each operation directly inside it.
fn round<S: Step>(nested: bool, passes: Passes<S>) -> Round<S>
    ensures inside { is_nested result ≡ nested }
    ensures passes { passes_in result ≡ passes.passes.items }
{
    if nested {
        Either::Right(NestedOpsPass::new(passes))
    } else {
        Either::Left(passes)
    }
}

// The round once, or at most so many times where a number of runs is given.
fn pipeline<S: Step>(runs: Option<usize>, round: Round<S>) -> Pipeline<S>
    ensures runs { runs_of result ≡ runs }
    ensures round { round_of result ≡ round }
{
    match runs {
        Some(max) => Either::Right(Repeat::new(max, round)),
        None => Either::Left(round),
    }
}

/// The pipeline that the text asks for, of the steps that the factory makes: `None` where one of its names is that of no
/// pass.
///
/// Errors: allocation failure. Cost: linear in the text.
pub fn build_pipeline<F: StepFactory>(
    alloc: Global,
    text: &PipelineText,
    factory: &F,
) -> Result<Option<Pipeline<F::S>>, AllocError>
    ensures { IfOk result (λ found. IfSome found (λ pipeline. IsPipelineOf F.S.name text.now.runs text.now.nested
        (map (λ name. name.now) text.now.names.items) pipeline)) }
{
    match passes(alloc, &text.names, factory)? {
        Some(passes) => Ok(Some(pipeline(text.runs, round(text.nested, passes)))),
        None => Ok(None),
    }
}

/// The steps of the pipeline in turn, as they are now. Cost: constant.
pub fn passes_of<S: Step>(pipeline: &Pipeline<S>) -> &[S]
    ensures { result.now ≡ listed_passes pipeline.now }
{
    let round = match pipeline {
        Either::Left(round) => round,
        Either::Right(repeated) => repeated.pass(),
    };
    match round {
        Either::Left(passes) => passes.passes(),
        Either::Right(each) => each.pass().passes(),
    }
}
