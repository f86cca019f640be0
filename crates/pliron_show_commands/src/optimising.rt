//! What passes make of texts.
ghost use Rattle.std.specs.Prelude.{◌≡◌, map, IfOk, IfSome, string_bytes};
ghost use Rattle.pliron_driver.specs.Ran.{RunsAlone};
ghost use Rattle.pliron_show_commands.specs.Asked.{EndsByPlannedRuns, EndsByListWord};
ghost use Rattle.pliron_show_commands.specs.Outcomes.{EndsBadly, IsRefused};
ghost use Rattle.pliron_show_commands.specs.Reports.{FaultsWord};
ghost use Rattle.pliron_show_commands.specs.Optimised.{EndsOptimised, IsLaidOut};

use crate::failure::CommandFailure;
use crate::outcome::{
    Outcome, failure_outcome, no_passes_outcome, refusing_outcome, unusable_outcome,
};
use crate::refusal::refused_outcome;
use crate::report::{ReportOptions, refused_note, report_of};
use pliron_driver::{NoObserver, TextFailure, optimise, passes_of};
use pliron_driver_instrument::{
    InstrumentationOptions, InstrumentedPipeline, InstrumentedStep, PipelineText, PlanError,
    Progress, WordFault, has_fault, instrumented_pipeline, is_short,
};
use pliron_laws::OptError;
use pliron_pass::{BenchFactKind, Pass};
use pliron_show::ShownNotation;
use pliron_show_places::{Source, SourceMark, mark_source};
use std::alloc::{AllocError, Global};

/// The options of passes.
#[derive(Clone, Copy)]
pub struct OptOptions<'w> {
    /// The passes, as a word.
    pub pipeline: &'w str,
    /// Whether each operation is to be on a line of its own.
    pub is_pretty: bool,
    /// What is recorded around each run of a pass.
    pub instrumentation: InstrumentationOptions<'w>,
    /// Whether the time of each pass is reported.
    pub times: bool,
    /// Whether the counts of each pass are objects of JSON.
    pub json: bool,
}

// The message for a word that plans no passes.
fn misspelling_message(alloc: Global, word: &str, fault: &WordFault) -> Result<String, AllocError>
    ensures { IfOk result (λ report. FaultsWord (string_bytes report)) }
{
    let label = format!(in alloc; "expected {}", fault.expected)?;
    let mark = SourceMark {
        message: "no such passes",
        label: label.as_str(),
        name: "PIPELINE",
        start: fault.start,
        len: fault.len,
    };
    mark_source(alloc, word.as_bytes(), &mark)
}

/// The outcome for a word that plans no passes: nothing is to be written, and the part that is wrong is reported.
/// Errors: allocation failure. Cost: linear in the word.
#[tactic(auto, using(crate::proofs::EndingLemmas::faulty))]
pub fn misspelling_outcome(
    alloc: Global,
    word: &str,
    fault: &WordFault,
) -> Result<Outcome, AllocError>
    ensures { IfOk result (EndsBadly FaultsWord) }
{
    Ok(unusable_outcome(alloc, misspelling_message(alloc, word, fault)?))
}

// The text with each operation on a line of its own, or as it is.
fn break_lines<N: ShownNotation>(
    alloc: Global,
    printed: Vec<u8>,
    is_pretty: bool,
) -> Result<Vec<u8>, AllocError>
    ensures { IfOk result (λ output. IsLaidOut printed.items output.items) }
{
    if is_pretty {
        N::on_lines(alloc, &printed)
    } else {
        Ok(printed)
    }
}

// The same, with the end of a line behind it, unless it has one.
#[tactic(auto, using(crate::proofs::CommandLemmas::ended))]
fn lay_out<N: ShownNotation>(
    alloc: Global,
    printed: Vec<u8>,
    is_pretty: bool,
) -> Result<Vec<u8>, AllocError>
    ensures { IfOk result (λ output. IsLaidOut printed.items output.items) }
{
    let mut output = break_lines::<N>(alloc, printed, is_pretty)?;
    if output.last() != Some(&b'\n') {
        output.push(b'\n')?;
    }
    Ok(output)
}

// What is reported beside the answer.
fn report_options(options: &OptOptions) -> ReportOptions {
    ReportOptions {
        is_pretty: options.is_pretty,
        faults: options.instrumentation.verifies,
        counts: options.instrumentation.counts,
        times: options.times,
        is_json: options.json,
    }
}

// The outcome where memory or the passes were refused: what was noted, why, and in which pass.
fn refusal_outcome<N: ShownNotation, C: Progress + Drop>(
    alloc: Global,
    mut report: String,
    source: &Source,
    error: OptError,
    plan: &PipelineText,
    passes: &[InstrumentedStep<N, C>],
) -> Result<Outcome, AllocError>
    ensures { IfOk result IsRefused }
{
    let refused = refused_outcome::<N>(alloc, source, error, plan)?;
    let note = if error == OptError::LiveUse {
        String::new(alloc)
    } else {
        refused_note(alloc, passes)?
    };
    report.push_str(refused.report.as_str())?;
    report.push_str(note.as_str())?;
    Ok(refusing_outcome(alloc, report))
}

// What these passes, which are the plan's, make of the text; the report begins with this one.
#[tactic(auto, using(crate::proofs::CommandLemmas::is_made, crate::proofs::CommandLemmas::refused_so))]
fn opt_with<N: ShownNotation, C: Progress + Copy + Drop>(
    alloc: Global,
    source: &Source,
    options: &OptOptions,
    plan: &PipelineText,
    pipeline: &mut InstrumentedPipeline<N, C>,
    mut report: String,
) -> Result<Outcome, AllocError>
    ensures { IfOk result (EndsOptimised N.reads N.prints N.faults N.D.meaning
        (RunsAlone ⟦<BenchFactKind as PartialEq>⟧.eq ⟦<InstrumentedPipeline<N, C> as Pass>⟧.outcome pipeline.old)
        options.now.instrumentation.verifies
        source.now.text.now) }
{
    let mut nothing = NoObserver;
    let made = optimise::<N, InstrumentedStep<N, C>, NoObserver>(
        alloc,
        pipeline,
        source.text,
        &mut nothing,
    );
    let passes = passes_of(pipeline);
    report.push_str(report_of(alloc, passes, &report_options(options))?.as_str())?;
    match made {
        Ok(_) if is_short(passes) => refusal_outcome(
            alloc,
            report,
            source,
            OptError::Memory,
            plan,
            passes,
        ),
        Ok(_) if options.instrumentation.verifies && has_fault(passes) => Ok(Outcome {
            output: Vec::new(alloc),
            report,
            status: 3,
        }),
        Ok(made) => Ok(Outcome {
            output: lay_out::<N>(alloc, made.printed, options.is_pretty)?,
            report,
            status: 0,
        }),
        Err(TextFailure::Text(_)) => failure_outcome::<N>(alloc, CommandFailure::Text, source),
        Err(TextFailure::Refused(error)) => {
            refusal_outcome(alloc, report, source, error, plan, passes)
        }
    }
}

// What the passes that the plan asks for make of the text; the report begins with this one.
#[tactic(auto, using(crate::proofs::CommandLemmas::is_planned, crate::proofs::CommandLemmas::no_passes))]
fn opt_by<N: ShownNotation, C: Progress + Copy + Drop>(
    alloc: Global,
    source: &Source,
    options: &OptOptions,
    plan: &PipelineText,
    clock: C,
    report: String,
) -> Result<Outcome, AllocError>
    ensures { IfOk result (EndsByPlannedRuns ⟦<InstrumentedStep<N, C> as Pass>⟧.name
        (λ pipeline. EndsOptimised N.reads N.prints N.faults N.D.meaning
        (RunsAlone ⟦<BenchFactKind as PartialEq>⟧.eq ⟦<InstrumentedPipeline<N, C> as Pass>⟧.outcome pipeline)
        options.now.instrumentation.verifies source.now.text.now) plan.now.runs
        plan.now.nested (map (λ name. name.now) plan.now.names.items)) }
{
    match instrumented_pipeline::<N, C>(alloc, plan, &options.instrumentation, clock)? {
        Some(mut pipeline) => opt_with(alloc, source, options, plan, &mut pipeline, report),
        None => no_passes_outcome(alloc),
    }
}

// What the passes that the word asks for make of the text; the report begins with this one.
#[tactic(auto, using(crate::proofs::CommandLemmas::is_asked, crate::proofs::CommandLemmas::no_plan, crate::proofs::CommandLemmas::no_text))]
pub(crate) fn opt_after<N: ShownNotation, C: Progress + Copy + Drop>(
    alloc: Global,
    source: &Source,
    options: &OptOptions,
    clock: C,
    report: String,
) -> Result<Outcome, AllocError>
    ensures { IfOk result (EndsByListWord ⟦<InstrumentedStep<N, C> as Pass>⟧.name
        (λ pipeline. EndsOptimised N.reads N.prints N.faults N.D.meaning
        (RunsAlone ⟦<BenchFactKind as PartialEq>⟧.eq ⟦<InstrumentedPipeline<N, C> as Pass>⟧.outcome pipeline)
        options.now.instrumentation.verifies source.now.text.now) (N.faults source.now.text.now)
        options.now.pipeline.now) }
{
    match PipelineText::read(alloc, options.pipeline) {
        Ok(plan) => opt_by::<N, C>(alloc, source, options, &plan, clock, report),
        Err(PlanError::Word(fault)) => misspelling_outcome(alloc, options.pipeline, &fault),
        Err(PlanError::Memory) => failure_outcome::<N>(
            alloc,
            CommandFailure::Refused(OptError::Memory),
            source,
        ),
    }
}

/// Runs the passes that the word asks for on a text, and answers the tree that they leave, printed.
///
/// Statuses: 0; 1 where memory or the passes were refused; 2 for a word that asks for no passes or an unreadable text;
/// 3 where verifying found something. With all but 0 nothing is to be written to the output. Errors: allocation failure
/// for what is reported. Cost: reading, the passes, what is recorded, and printing.
pub fn opt<N: ShownNotation, C: Progress + Copy + Drop>(
    alloc: Global,
    source: &Source,
    options: &OptOptions,
    clock: C,
) -> Result<Outcome, AllocError>
    ensures { IfOk result (EndsByListWord ⟦<InstrumentedStep<N, C> as Pass>⟧.name
        (λ pipeline. EndsOptimised N.reads N.prints N.faults N.D.meaning
        (RunsAlone ⟦<BenchFactKind as PartialEq>⟧.eq ⟦<InstrumentedPipeline<N, C> as Pass>⟧.outcome pipeline)
        options.now.instrumentation.verifies source.now.text.now) (N.faults source.now.text.now)
        options.now.pipeline.now) }
{
    opt_after::<N, C>(alloc, source, options, clock, String::new(alloc))
}
