//! Passes on texts that may be unfit to run.
ghost use Rattle.std.specs.Prelude.{◌≡◌, ◌⊎◌, IfOk, IsTrue};
ghost use Rattle.pliron_core.specs.Writes.{no_tree};
ghost use Rattle.pliron_driver.specs.Ran.{RunsAlone};
ghost use Rattle.pliron_show_commands.specs.Asked.{EndsByListWord};
ghost use Rattle.pliron_show_commands.specs.CheckOutcome.{IsFitText, IsRejected};
ghost use Rattle.pliron_show_commands.specs.Optimised.{EndsOptimised};

use crate::checking::{Finding, find_message};
use crate::failure::CommandFailure;
use crate::one_by_one::first_unfit;
use crate::optimising::{OptOptions, opt, opt_after};
use crate::outcome::{Outcome, failure_outcome};
use crate::violation_message::violation_message;
use pliron_core::Context;
use pliron_driver_instrument::{InstrumentedPipeline, InstrumentedStep, Progress};
use pliron_laws::OptError;
use pliron_pass::{BenchFactKind, Pass};
use pliron_show::ShownNotation;
use pliron_show_places::Source;
use std::alloc::{AllocError, Global};

// The severity of a text that isn't fit to run; where each run is verified, it says that this was so before the first
// one.
fn severity_of(verifies: bool) -> &'static str {
    if verifies {
        "warning: already in the input"
    } else {
        "warning"
    }
}

/// A warning of what keeps the text's operation from being fit to run, or, for a `mod`, one of its functions; empty where
/// nothing does, and for an unreadable text. With `verifies` it says that this was so in the input already.
///
/// Errors: allocation failure. Cost: that of `check`.
pub fn unfit_warning<N: ShownNotation>(
    alloc: Global,
    source: &Source,
    verifies: bool,
) -> Result<String, OptError> {
    let mut ctx = Context::new(alloc);
    warning_in::<N>(alloc, source, verifies, &mut ctx)
}

// The same, where the context is empty.
fn warning_in<N: ShownNotation>(
    alloc: Global,
    source: &Source,
    verifies: bool,
    ctx: &mut Context,
) -> Result<String, OptError>
    requires { ctx.old.tree ≡ no_tree }
{
    let Some(root) = N::read(alloc, source.text, ctx)? else {
        return Ok(String::new(alloc));
    };
    match first_unfit::<N::D>(alloc, root, ctx)? {
        Some((op, violation)) => {
            violation_message::<N>(alloc, severity_of(verifies), source, op, &violation, ctx)
        }
        None => Ok(String::new(alloc)),
    }
}

// Runs the passes where the text's operation is fit to run.
#[tactic(auto, using(crate::proofs::StrictLemmas::anyway, crate::proofs::StrictLemmas::whole_fit, crate::proofs::StrictLemmas::parts_fit))]
fn opt_if_fit<N: ShownNotation, C: Progress + Copy + Drop>(
    alloc: Global,
    source: &Source,
    options: &OptOptions,
    clock: C,
) -> Result<Outcome, AllocError>
    ensures answer { IfOk result (λ outcome. EndsByListWord ⟦<InstrumentedStep<N, C> as Pass>⟧.name
        (λ pipeline. EndsOptimised N.reads N.prints N.faults N.D.meaning
        (RunsAlone ⟦<BenchFactKind as PartialEq>⟧.eq ⟦<InstrumentedPipeline<N, C> as Pass>⟧.outcome pipeline)
        options.now.instrumentation.verifies source.now.text.now)
        (N.faults source.now.text.now) options.now.pipeline.now outcome
        ⊎ IsRejected N.reads N.D.meaning source.now.text.now outcome) }
    ensures fit { IfOk result (λ outcome. outcome.status ≡ 0 → IsFitText N.reads N.D.meaning source.now.text.now) }
{
    match find_message::<N>(alloc, source) {
        Ok(Some(Finding::Wrong(report))) => Ok(Outcome {
            output: Vec::new(alloc),
            report,
            status: 3,
        }),
        Ok(Some(Finding::Whole)) => opt::<N, C>(alloc, source, options, clock),
        Ok(Some(Finding::ByParts)) => opt::<N, C>(alloc, source, options, clock),
        Ok(None) => failure_outcome::<N>(alloc, CommandFailure::Text, source),
        Err(error) => failure_outcome::<N>(alloc, CommandFailure::Refused(error), source),
    }
}

/// Runs passes as `opt` does, after a check: what keeps the text's operation from being fit to run, or, for a `mod`,
/// one of its functions, is reported as a warning before what `opt` reports. With `is_strict` no pass runs where the
/// operation isn't fit to run, as `check` finds it, and that is reported as an error.
///
/// Statuses: those of `opt`; with `is_strict` 3 where the operation isn't fit to run. With all but 0 nothing is to be
/// written to the output. Errors: allocation failure for what is reported. Cost: that of `check` and that of `opt`.
pub fn opt_with_check<N: ShownNotation, C: Progress + Copy + Drop>(
    alloc: Global,
    source: &Source,
    options: &OptOptions,
    is_strict: bool,
    clock: C,
) -> Result<Outcome, AllocError>
    ensures answer { IfOk result (λ outcome. EndsByListWord ⟦<InstrumentedStep<N, C> as Pass>⟧.name
        (λ pipeline. EndsOptimised N.reads N.prints N.faults N.D.meaning
        (RunsAlone ⟦<BenchFactKind as PartialEq>⟧.eq ⟦<InstrumentedPipeline<N, C> as Pass>⟧.outcome pipeline)
        options.now.instrumentation.verifies source.now.text.now)
        (N.faults source.now.text.now) options.now.pipeline.now outcome
        ⊎ (IsTrue is_strict × IsRejected N.reads N.D.meaning source.now.text.now outcome)) }
    ensures strict { IfOk result (λ outcome. IsTrue is_strict → outcome.status ≡ 0 →
        IsFitText N.reads N.D.meaning source.now.text.now) }
{
    if is_strict {
        return opt_if_fit::<N, C>(alloc, source, options, clock);
    }
    match unfit_warning::<N>(alloc, source, options.instrumentation.verifies) {
        Ok(report) => opt_after::<N, C>(alloc, source, options, clock, report),
        Err(error) => failure_outcome::<N>(alloc, CommandFailure::Refused(error), source),
    }
}
