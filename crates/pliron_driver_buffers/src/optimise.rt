//! Passes on a text.
ghost use Rattle.std.specs.Prelude.{◌≡◌, ◌≢◌, ◌⊎◌, IfOk, IfErr};
ghost use Rattle.pliron_driver.specs.Answered.{IsOptimised};
ghost use Rattle.pliron_driver.specs.Asked.{IsPlanned};
ghost use Rattle.pliron_driver.specs.Ran.{RunsAlone};
ghost use Rattle.pliron_driver_buffers.specs.Fills.{Fills};
ghost use Rattle.pliron_driver_buffers.specs.Optimises.{Optimises, IsListedPipeline, Explains};

use crate::buffer::fill;
use crate::status::{CallFailure, Status};
use pliron_dialect_edges::BranchesAtOnce;
use pliron_driver::{MAX_TEXT, Notation, PassPipeline, optimise_text, read_pipeline};
use pliron_laws::Dialect;
use pliron_pass::{BenchFactKind, BenchFacts, Pass};
use pliron_rewrite_rules::Rules;
use std::alloc::Global;

// The pipeline that the list plans. Errors: the list isn't one of names of passes; allocation failure.
fn pipeline_of<D: Dialect + BranchesAtOnce, L: Rules<D>>(
    alloc: Global,
    list: &[u8],
) -> Result<PassPipeline<D, BenchFacts, L>, CallFailure>
    ensures planned { IfOk result (λ pipeline. IsPlanned list.now pipeline) }
    ensures failure { IfErr result (λ failure. (failure ≡ CallFailure.Arguments) ⊎ (failure ≡ CallFailure.Memory)) }
{
    let Ok(word) = str::from_utf8(list) else {
        return Err(CallFailure::Arguments);
    };
    match read_pipeline(alloc, word)? {
        Some(pipeline) => Ok(pipeline),
        None => Err(CallFailure::Arguments),
    }
}

// What the passes make of the text, printed.
//
// Errors: the text is outside the notation or too long; those of the passes; allocation failure.
fn answer_of<N: Notation>(
    alloc: Global,
    pipeline: PassPipeline<N::D, BenchFacts, N::Rules>,
    text: &[u8],
) -> Result<Vec<u8>, CallFailure>
    ensures answer { IfOk result (λ answer. IsOptimised N.reads N.prints N.D.meaning
        (RunsAlone ⟦<BenchFactKind as PartialEq>⟧.eq ⟦<PassPipeline<N::D, BenchFacts, N::Rules> as Pass>⟧.outcome
        pipeline) text.now answer.items) }
    ensures failure { IfErr result (λ failure. failure ≢ CallFailure.Arguments) }
{
    if text.len() > MAX_TEXT {
        return Err(CallFailure::Text);
    }
    match optimise_text::<N>(alloc, pipeline, text) {
        Ok(Some(answer)) => Ok(answer),
        Ok(None) => Err(CallFailure::Text),
        Err(error) => Err(CallFailure::of(error)),
    }
}

/// What the passes of a list make of a text, printed, and a line that says whether they changed it: what the
/// program of the notation answers to the word and the input.
///
/// Errors: the list isn't one of names of passes; the text is outside the notation, or longer than 1,048,576 bytes; the
/// passes gave up; allocation failure. Cost: linear in the texts, and that of the passes.
pub fn optimise_by_list<N: Notation>(
    alloc: Global,
    list: &[u8],
    text: &[u8],
) -> Result<Vec<u8>, CallFailure>
    ensures answer { IfOk result (λ answer. Optimises N.reads N.prints N.D.meaning
        (RunsAlone ⟦<BenchFactKind as PartialEq>⟧.eq ⟦<PassPipeline<N::D, BenchFacts, N::Rules> as Pass>⟧.outcome)
        list.now text.now answer.items) }
    ensures failure { IfErr result (Explains (IsListedPipeline (RunsAlone ⟦<BenchFactKind as PartialEq>⟧.eq
        ⟦<PassPipeline<N::D, BenchFacts, N::Rules> as Pass>⟧.outcome) list.now)) }
{
    let pipeline = pipeline_of(alloc, list)?;
    answer_of::<N>(alloc, pipeline, text)
}

/// Puts what `optimise_by_list` answers into the buffer, and reports its length, or 0 where no answer is known.
///
/// Nothing is written to the buffer unless the whole answer fits. Cost: that of `optimise_by_list`.
pub fn optimise_into<N: Notation>(
    alloc: Global,
    list: &[u8],
    text: &[u8],
    output: &mut [u8],
    needed: &mut usize,
) -> Status
    ensures { Fills (Optimises N.reads N.prints N.D.meaning
        (RunsAlone ⟦<BenchFactKind as PartialEq>⟧.eq ⟦<PassPipeline<N::D, BenchFacts, N::Rules> as Pass>⟧.outcome)
        list.now text.now) (Explains (IsListedPipeline (RunsAlone ⟦<BenchFactKind as PartialEq>⟧.eq
        ⟦<PassPipeline<N::D, BenchFacts, N::Rules> as Pass>⟧.outcome) list.now)) output.old output.new
        needed.new result }
{
    fill(optimise_by_list::<N>(alloc, list, text), output, needed)
}
