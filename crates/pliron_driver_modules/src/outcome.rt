//! How a run of the program ends.
ghost use Rattle.std.specs.Prelude.{◌≡◌, map, IfOk};
ghost use Rattle.pliron_driver.specs.Ran.{RunsAlone};
ghost use Rattle.pliron_driver_modules.specs.Outcomes.{EndsWithout, Writes, EndsWithModule, EndsByPlan};

use crate::failure::failure_status;
use crate::module_observer::{ModuleObserver, ModuleOptions};
use crate::notation::ModuleNotation;
use crate::report::report_of;
use crate::source::ModuleSource;
use crate::stages::write_stages;
use crate::tally::write_tallies;
use pliron_core::IRStatus;
use pliron_driver::{OptimisedText, TextFailure, optimise, passes_of};
use pliron_driver_instrument::{
    InstrumentationOptions, InstrumentedPipeline, InstrumentedStep, PipelineText, Progress,
    WordFault, has_fault, instrumented_pipeline, is_short,
};
use pliron_laws::OptError;
use pliron_pass::{BenchFactKind, Pass};
use std::alloc::{AllocError, Global};

/// What a run of the program leaves to be written, and its status.
#[derive(Drop)]
pub struct ModuleOutcome {
    /// What is written to standard output, or to the file that is named: a module, and nothing else.
    pub output: Vec<u8>,
    /// What is written to standard error.
    pub report: String,
    pub status: u8,
}

/// The outcome of words or an input that can't be used, with this report: nothing is to be written. Cost: constant.
pub(crate) fn unusable_outcome(alloc: Global, report: String) -> ModuleOutcome
    ensures { EndsWithout result }
{
    ModuleOutcome {
        output: Vec::new(alloc),
        report,
        status: 2,
    }
}

// The outcome where the module isn't answered.
fn failure_outcome<N: ModuleNotation>(
    alloc: Global,
    source: &ModuleSource,
    report: String,
    failure: TextFailure<N::Fault>,
) -> Result<ModuleOutcome, AllocError>
    ensures { IfOk result EndsWithout }
{
    let mut report = report;
    let status = failure_status(&failure);
    report.push_str(N::failure_message(alloc, failure, source)?.as_str())?;
    Ok(ModuleOutcome {
        output: Vec::new(alloc),
        report,
        status,
    })
}

// Writes the report on a module that passes made: counts, what stages did before them, whether it changed, and whether what is
// printed says it.
fn write_made(
    report: &mut String,
    status: IRStatus,
    observer: &ModuleObserver,
) -> Result<(), AllocError> {
    if let Some(counts) = &observer.counts {
        write_tallies(report, &counts.before, &counts.after)?;
        report.push_str(counts.notes.as_str())?;
    }
    write_stages(report, &observer.stages)?;
    let is_changed = status == IRStatus::Changed || observer.stages.is_changed();
    report.push_str(if is_changed {
        "changed\n"
    } else {
        "unchanged\n"
    })?;
    match observer.agrees {
        Some(true) => report.push_str("checked: what is printed says the same tree\n"),
        Some(false) => report.push_str("error: what is printed says another tree\n"),
        None => Ok(()),
    }
}

// The outcome of passes that came to an end: the module printed, or nothing where a fault was found.
fn success_outcome(
    alloc: Global,
    report: String,
    made: OptimisedText,
    observer: &ModuleObserver,
    has_fault: bool,
) -> Result<ModuleOutcome, AllocError>
    ensures { IfOk result (Writes made.printed.items) }
{
    let mut report = report;
    write_made(&mut report, made.status, observer)?;
    if has_fault || observer.agrees == Some(false) {
        return Ok(ModuleOutcome {
            output: Vec::new(alloc),
            report,
            status: 3,
        });
    }
    Ok(ModuleOutcome {
        output: made.printed,
        report,
        status: 0,
    })
}

// Runs these passes on the module that the text says.
#[tactic(auto, using(crate::proofs::OutcomeLemmas::ends_made, crate::proofs::OutcomeLemmas::ends_without))]
fn run_pipeline<N: ModuleNotation, C: Progress + Copy + Drop>(
    alloc: Global,
    source: &ModuleSource,
    options: &ModuleOptions,
    pipeline: &mut InstrumentedPipeline<N, C>,
) -> Result<ModuleOutcome, AllocError>
    ensures { IfOk result (EndsWithModule N.reads N.prints N.D.meaning
        (RunsAlone ⟦<BenchFactKind as PartialEq>⟧.eq ⟦<InstrumentedPipeline<N, C> as Pass>⟧.outcome
        pipeline.old) source.now.text.now) }
{
    let mut observer = ModuleObserver::new(*options, *source);
    let made = optimise::<N, InstrumentedStep<N, C>, ModuleObserver>(
        alloc,
        pipeline,
        source.text,
        &mut observer,
    );
    let passes = passes_of(pipeline);
    let report = report_of(alloc, passes, options)?;
    match made {
        Ok(_) if is_short(passes) => {
            failure_outcome::<N>(
                alloc,
                source,
                report,
                TextFailure::Refused(OptError::Memory),
            )
        }
        Ok(made) => success_outcome(alloc, report, made, &observer, has_fault(passes)),
        Err(failure) => failure_outcome::<N>(alloc, source, report, failure),
    }
}

/// Runs the passes that the plan asks for on the module that the text says, and answers the module that they leave.
///
/// It is proved for each dialect and notation, and so for each interpretation of what no table of operations knows.
/// The programs call it at one, which no code reads.
///
/// Statuses: 0; 1 where memory or the passes were refused; 2 for a text that can't be used; 3 where verifying or
/// reading again found a fault. With all but 0 nothing is to be written to the output. Errors: allocation failure for
/// the report. Cost: reading, the passes, what is counted, and printing.
#[tactic(auto, using(crate::proofs::OutcomeLemmas::ends_planned, crate::proofs::OutcomeLemmas::ends_unplanned))]
pub fn run_passes<N: ModuleNotation, C: Progress + Copy + Drop>(
    alloc: Global,
    source: &ModuleSource,
    options: &ModuleOptions,
    plan: &PipelineText,
    clock: C,
) -> Result<ModuleOutcome, AllocError>
    ensures { IfOk result (EndsByPlan ⟦<InstrumentedStep<N, C> as Pass>⟧.name
        (λ pipeline. EndsWithModule N.reads N.prints N.D.meaning
        (RunsAlone ⟦<BenchFactKind as PartialEq>⟧.eq ⟦<InstrumentedPipeline<N, C> as Pass>⟧.outcome
        pipeline) source.now.text.now) plan.now.runs plan.now.nested (map (λ name. name.now) plan.now.names.items)) }
{
    let watch = InstrumentationOptions {
        counts: options.counts,
        verifies: options.verifies,
        prints_all: false,
        prints: &[],
    };
    match instrumented_pipeline::<N, C>(alloc, plan, &watch, clock)? {
        Some(mut pipeline) => run_pipeline(alloc, source, options, &mut pipeline),
        None => {
            let report = String::from_str(alloc, "error: no such passes\n")?;
            Ok(unusable_outcome(alloc, report))
        }
    }
}

/// The outcome for a word that plans no passes: nothing is to be written, and the report says which part is wrong.
/// Errors: allocation failure. Cost: linear in the word.
pub fn misspelling_outcome(
    alloc: Global,
    word: &str,
    fault: &WordFault,
) -> Result<ModuleOutcome, AllocError>
    ensures { IfOk result EndsWithout }
{
    let (column, expected) = (fault.start.saturating_add(1), fault.expected);
    let report = format!(in alloc;
        "error: no such passes: {word}: at byte {column}: expected {expected}\n"
    )?;
    Ok(unusable_outcome(alloc, report))
}
