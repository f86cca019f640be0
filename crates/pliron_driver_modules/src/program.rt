//! The program over streams: what is read and what is written.
ghost use Rattle.std.specs.Prelude.{◌≡◌, map, IfOk, OnOk};
ghost use Rattle.pliron_driver.specs.Ran.{RunsAlone};
ghost use Rattle.pliron_driver_modules.specs.Outcomes.{EndsWithout, EndsWithModule, EndsByPlan, EndsByWord};
ghost use Rattle.pliron_driver_modules.specs.Streams.{EndsOnStreams, IsOfInput, IsOutcomeWritten};

use crate::each_pass::print_after_each;
use crate::module_observer::ModuleOptions;
use crate::notation::ModuleNotation;
use crate::outcome::{ModuleOutcome, misspelling_outcome, run_passes, unusable_outcome};
use crate::plans::read_plan;
use crate::source::ModuleSource;
use pliron_driver::write_bytes;
use pliron_driver_instrument::{
    InstrumentedPipeline, InstrumentedStep, PipelineText, PlanError, Progress,
};
use pliron_pass::{BenchFactKind, Pass};
use std::alloc::{AllocError, Global};
use std::io::{self, ErrorKind, Read, Write};

/// The most bytes of a text.
pub const MAX_TEXT: usize = 268_435_456;

/// What is asked for.
#[derive(Clone, Copy)]
pub struct Request<'w> {
    /// The passes, as a word.
    pub pipeline: &'w str,
    /// What users call the input.
    pub name: &'w str,
    pub options: ModuleOptions,
    /// Whether the module is written to standard error after each pass.
    pub prints_all: bool,
}

// Runs the passes of the plan on the text, after writing the module as it is after each pass, where that is asked for.
fn run_plan<N: ModuleNotation, E: Write, C: Progress + Copy + Drop>(
    alloc: Global,
    request: &Request,
    source: &ModuleSource,
    plan: &PipelineText,
    errors: &mut E,
    clock: C,
) -> Result<ModuleOutcome, AllocError>
    ensures { IfOk result (EndsByPlan ⟦<InstrumentedStep<N, C> as Pass>⟧.name
        (λ pipeline. EndsWithModule N.reads N.prints N.D.meaning (RunsAlone ⟦<BenchFactKind as PartialEq>⟧.eq
        ⟦<InstrumentedPipeline<N, C> as Pass>⟧.outcome pipeline) source.now.text.now)
        plan.now.runs plan.now.nested (map (λ name. name.now) plan.now.names.items)) }
{
    if request.prints_all {
        let printed = print_after_each::<N>(alloc, source.text, plan)?;
        let _ = errors.write_all(&printed);
    }
    run_passes::<N, C>(alloc, source, &request.options, plan, clock)
}

// Runs the passes that the request asks for on the text.
#[tactic(auto, using(crate::proofs::StreamLemmas::ends_by_word, crate::proofs::StreamLemmas::ends_without_word))]
fn run_word<N: ModuleNotation, E: Write, C: Progress + Copy + Drop>(
    alloc: Global,
    request: &Request,
    text: &[u8],
    errors: &mut E,
    clock: C,
) -> Result<ModuleOutcome, AllocError>
    ensures { IfOk result (EndsByWord ⟦<InstrumentedStep<N, C> as Pass>⟧.name
        (λ pipeline. EndsWithModule N.reads N.prints N.D.meaning (RunsAlone ⟦<BenchFactKind as PartialEq>⟧.eq
        ⟦<InstrumentedPipeline<N, C> as Pass>⟧.outcome pipeline) text.now)
        request.now.pipeline.now) }
{
    let source = ModuleSource {
        name: request.name,
        text,
    };
    match read_plan(alloc, request.pipeline) {
        Ok(plan) => run_plan::<N, E, C>(alloc, request, &source, &plan, errors, clock),
        Err(PlanError::Word(fault)) => misspelling_outcome(alloc, request.pipeline, &fault),
        Err(PlanError::Memory) => Err(AllocError),
    }
}

// The outcome of an input that can't be read. Errors: allocation failure, also where that is why.
fn unread_outcome(alloc: Global, name: &str, error: &io::Error) -> Result<ModuleOutcome, AllocError>
    ensures { IfOk result EndsWithout }
{
    if error.kind() == ErrorKind::OutOfMemory {
        return Err(AllocError);
    }
    let report = format!(in alloc; "error: cannot read {name}: {error}\n")?;
    Ok(unusable_outcome(alloc, report))
}

// What becomes of the input.
#[tactic(auto, using(crate::proofs::StreamLemmas::of_unread))]
fn outcome_of_input<N: ModuleNotation, R: Read, E: Write, C: Progress + Copy + Drop>(
    alloc: Global,
    request: &Request,
    input: &mut R,
    errors: &mut E,
    clock: C,
) -> Result<ModuleOutcome, AllocError>
    ensures { IfOk result (IsOfInput (λ text. EndsByWord ⟦<InstrumentedStep<N, C> as Pass>⟧.name
        (λ pipeline. EndsWithModule N.reads N.prints N.D.meaning (RunsAlone ⟦<BenchFactKind as PartialEq>⟧.eq
        ⟦<InstrumentedPipeline<N, C> as Pass>⟧.outcome pipeline) text) request.now.pipeline.now)
        (R.remaining input.old)) }
{
    let mut text = Vec::new(alloc);
    match input.read_to_end(&mut text) {
        Err(error) => unread_outcome(alloc, request.name, &error),
        Ok(_) if text.len() > MAX_TEXT => {
            let name = request.name;
            let report = format!(in alloc; "{name}: expected a text of at most 256 MiB\n")?;
            Ok(unusable_outcome(alloc, report))
        }
        Ok(_) => run_word::<N, E, C>(alloc, request, &text, errors, clock),
    }
}

// Says why the module isn't written, and answers the status.
fn report_unwritten<E: Write>(error: &io::Error, errors: &mut E) -> u8
    ensures { result ≡ 2 }
{
    let _ = writeln!(errors, "error: {error}");
    2
}

// Says that memory was refused, and answers the status.
fn report_refused<E: Write>(errors: &mut E) -> u8
    ensures { result ≡ 1 }
{
    let _ = writeln!(errors, "error: refused: want of memory");
    1
}

// Writes the outcome: the report to `errors`, and to `output` the module, where there is one. Answers the status: that
// of the outcome, but 2 where writing the module fails, also where nobody reads it any more.
fn write_outcome<W: Write, E: Write>(outcome: &ModuleOutcome, output: &mut W, errors: &mut E) -> u8
    ensures { IsOutcomeWritten outcome.now (W.contents output.old) (W.contents output.new) result }
{
    let _ = write!(errors, "{}", outcome.report);
    if outcome.status != 0 {
        return outcome.status;
    }
    match write_bytes(&outcome.output, output) {
        Ok(()) => 0,
        Err(error) => report_unwritten(&error, errors),
    }
}

/// Runs the program on these streams. Answers its status.
///
/// For every dialect that keeps its laws and every notation of its modules: with status 0 the output gets a tree
/// printed, and nothing else. The whole input was read as a tree; the passes that the word asks for, run once as a
/// whole, made the printed tree of it; and every operation that was fit to run and is still live does as before.
///
/// Statuses: those of `run_passes`; 1 also where memory for a report is refused, and 2 where the input can't be read, is
/// longer than 268,435,456 bytes, or the module can't be written. With all but 0 nothing is written to `output`, unless
/// writing the module fails: then a first part of it is. A failed write to `errors` is ignored. Cost: reading, the passes, what is counted, and
/// printing.
pub fn run_on<N: ModuleNotation, R: Read, W: Write, E: Write, C: Progress + Copy + Drop>(
    alloc: Global,
    request: &Request,
    input: &mut R,
    output: &mut W,
    errors: &mut E,
    clock: C,
) -> u8
    ensures { EndsOnStreams (λ text. EndsByWord ⟦<InstrumentedStep<N, C> as Pass>⟧.name
        (λ pipeline. EndsWithModule N.reads N.prints N.D.meaning (RunsAlone ⟦<BenchFactKind as PartialEq>⟧.eq
        ⟦<InstrumentedPipeline<N, C> as Pass>⟧.outcome pipeline) text) request.now.pipeline.now)
        (R.remaining input.old) (W.contents output.old) (W.contents output.new) result }
{
    match outcome_of_input::<N, R, E, C>(alloc, request, input, errors, clock) {
        Ok(outcome) => write_outcome(&outcome, output, errors),
        Err(_) => report_refused(errors),
    }
}
