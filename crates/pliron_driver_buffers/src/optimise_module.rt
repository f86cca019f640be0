//! Passes on a module of MLIR.
ghost use Rattle.std.specs.Prelude.{◌≡◌, ◌≢◌, ◌⊎◌, ◌++◌, map, IfOk, IfErr};
ghost use Rattle.pliron_driver.specs.Answered.{IsOptimised, status_line};
ghost use Rattle.pliron_driver.specs.Ran.{RunsAlone};
ghost use Rattle.pliron_driver_buffers.specs.Fills.{Fills};
ghost use Rattle.pliron_driver_buffers.specs.Optimises.{Explains};
ghost use Rattle.pliron_driver_buffers.specs.Modules.{IsWord, IsAsked, OptimisesModule, number_of_change};
ghost use Rattle.pliron_driver_modules.specs.Outcomes.{AsksFor};

use crate::buffer::{put, put_nothing};
use crate::status::{CallFailure, Status};
use pliron_core::IRStatus;
use pliron_driver::{NoObserver, OptimisedText, TextFailure, optimise, passes_of};
use pliron_driver_instrument::{
    InstrumentationOptions, InstrumentedPipeline, InstrumentedStep, PipelineText, PlanError,
    Timeless, instrumented_pipeline, is_short,
};
use pliron_driver_modules::{ModuleNotation, read_plan};
use pliron_pass::{BenchFactKind, Pass};
use std::alloc::Global;

/// The most bytes of a module.
pub const MAX_MODULE: usize = 268_435_456;

/// A pass on modules of a notation, whose time nobody asks for.
pub type ModulePass<N> = InstrumentedStep<N, Timeless>;

/// Passes that a word asks for.
pub type ModulePipeline<N> = InstrumentedPipeline<N, Timeless>;

// The passes that the word asks for: of an empty one, none. Errors: it isn't a list of names of passes; allocation
// failure.
fn plan_of<'w>(alloc: Global, word: &'w [u8]) -> Result<PipelineText<'w>, CallFailure>
    ensures asked { IfOk result (λ plan. AsksFor word.now plan.runs plan.nested
        (map (λ name. name.now) plan.names.items)) }
    ensures failure { IfErr result (λ failure. (failure ≡ CallFailure.Arguments) ⊎ (failure ≡ CallFailure.Memory)) }
{
    let Ok(word) = str::from_utf8(word) else {
        return Err(CallFailure::Arguments);
    };
    match read_plan(alloc, word) {
        Ok(plan) => Ok(plan),
        Err(PlanError::Word(_)) => Err(CallFailure::Arguments),
        Err(PlanError::Memory) => Err(CallFailure::Memory),
    }
}

// The pipeline that the word asks for. Errors: it isn't a list of names of passes; allocation failure.
fn pipeline_of<N: ModuleNotation>(
    alloc: Global,
    word: &[u8],
) -> Result<ModulePipeline<N>, CallFailure>
    ensures asked { IfOk result (IsAsked ⟦<ModulePass<N> as Pass>⟧.name word.now) }
    ensures failure { IfErr result (λ failure. (failure ≡ CallFailure.Arguments) ⊎ (failure ≡ CallFailure.Memory)) }
{
    let plan = plan_of(alloc, word)?;
    let nothing = InstrumentationOptions::nothing();
    match instrumented_pipeline::<N, Timeless>(alloc, &plan, &nothing, Timeless)? {
        Some(pipeline) => Ok(pipeline),
        None => Err(CallFailure::Arguments),
    }
}

// What the passes make of the module, printed, and whether it changed.
//
// Errors: the text is outside the generic form or too long; those of the passes; allocation failure.
fn answer_of<N: ModuleNotation>(
    alloc: Global,
    pipeline: &mut ModulePipeline<N>,
    text: &[u8],
) -> Result<OptimisedText, CallFailure>
    ensures answer { IfOk result (λ made. IsOptimised N.reads N.prints N.D.meaning
        (RunsAlone ⟦<BenchFactKind as PartialEq>⟧.eq ⟦<ModulePipeline<N> as Pass>⟧.outcome pipeline.old)
        text.now (made.printed.items ++ status_line made.status)) }
    ensures failure { IfErr result (λ failure. failure ≢ CallFailure.Arguments) }
{
    if text.len() > MAX_MODULE {
        return Err(CallFailure::Text);
    }
    let mut nothing = NoObserver;
    match optimise::<N, ModulePass<N>, NoObserver>(alloc, pipeline, text, &mut nothing) {
        // Memory was refused for what is noted of a pass: with that `plir_mlir` gives no answer either.
        Ok(_) if is_short(passes_of(pipeline)) => Err(CallFailure::Memory),
        Ok(made) => Ok(made),
        Err(TextFailure::Text(_)) => Err(CallFailure::Text),
        Err(TextFailure::Refused(error)) => Err(CallFailure::of(error)),
    }
}

// What the passes that the word asks for make of the module, printed, and whether it changed.
fn optimise_module<N: ModuleNotation>(
    alloc: Global,
    word: &[u8],
    text: &[u8],
) -> Result<OptimisedText, CallFailure>
    ensures answer { IfOk result (λ made. OptimisesModule ⟦<ModulePass<N> as Pass>⟧.name
        N.reads N.prints N.D.meaning
        (RunsAlone ⟦<BenchFactKind as PartialEq>⟧.eq ⟦<ModulePipeline<N> as Pass>⟧.outcome)
        word.now text.now (number_of_change made.status) made.printed.items) }
    ensures failure { IfErr result (Explains (IsWord ⟦<ModulePass<N> as Pass>⟧.name
        (RunsAlone ⟦<BenchFactKind as PartialEq>⟧.eq ⟦<ModulePipeline<N> as Pass>⟧.outcome) word.now)) }
{
    let mut pipeline = pipeline_of::<N>(alloc, word)?;
    answer_of::<N>(alloc, &mut pipeline, text)
}

// The number by which other languages know whether a tree changed.
fn change_number(status: IRStatus) -> u32
    ensures { result ≡ number_of_change status }
{
    match status {
        IRStatus::Changed => 1,
        IRStatus::Unchanged => 0,
    }
}

/// Runs the passes that a word asks for on a module in MLIR's generic form, puts the module that they leave into the
/// buffer, and nothing else: what `plir_mlir` writes for the word and the input. Reports the answer's length, or 0
/// where no answer is known, and in `changed` 1 where the passes changed the module, and else 0.
///
/// The word is that of `PipelineText::read`; an empty one asks for no pass. There is no answer to another word, to a
/// text that `read_module` refuses or of more than 268,435,456 bytes, where the passes gave up, and on allocation
/// failure. Nothing is written to the buffer unless the whole answer fits. Cost: linear in the texts, and that of the
/// passes.
pub fn optimise_module_into<N: ModuleNotation>(
    alloc: Global,
    word: &[u8],
    text: &[u8],
    output: &mut [u8],
    needed: &mut usize,
    changed: &mut u32,
) -> Status
    ensures { Fills (OptimisesModule ⟦<ModulePass<N> as Pass>⟧.name N.reads N.prints N.D.meaning
        (RunsAlone ⟦<BenchFactKind as PartialEq>⟧.eq ⟦<ModulePipeline<N> as Pass>⟧.outcome)
        word.now text.now changed.new) (λ failure. Explains (IsWord ⟦<ModulePass<N> as Pass>⟧.name
        (RunsAlone ⟦<BenchFactKind as PartialEq>⟧.eq ⟦<ModulePipeline<N> as Pass>⟧.outcome) word.now) failure
        × (changed.new ≡ 0)) output.old output.new needed.new result }
{
    match optimise_module::<N>(alloc, word, text) {
        Ok(made) => {
            *changed = change_number(made.status);
            put(&made.printed, output, needed)
        }
        Err(failure) => {
            *changed = 0;
            put_nothing(failure, needed)
        }
    }
}
