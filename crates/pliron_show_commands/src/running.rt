//! Runs of texts.
ghost use Rattle.std.specs.Prelude.{◌≡◌, ◌⊎◌, ⊤, IfOk};
ghost use Rattle.pliron_show_commands.specs.Outcomes.{EndsEither};

use crate::failure::CommandFailure;
use crate::outcome::{Outcome, failure_outcome};
use pliron_laws::OptError;
use pliron_show::{EffectSink, End, RunOptions, RunReport, Runnable, run_text, run_text_streamed};
use pliron_show_places::Source;
use std::alloc::{AllocError, Global};

// The status of a run: 0 where it ended with values, and else 3.
fn status_of_end(end: End) -> u8
    ensures { (result ≡ 0) ⊎ (result ≡ 3) }
{
    match end {
        End::Ended => 0,
        End::Trapped | End::Stopped => 3,
    }
}

// The outcome of a run of which this is reported.
#[tactic(auto, using(crate::proofs::CommandLemmas::ends_by))]
fn outcome_of_run<N: Runnable>(
    alloc: Global,
    source: &Source,
    reported: Result<Option<RunReport>, OptError>,
) -> Result<Outcome, AllocError>
    ensures { IfOk result (EndsEither (N.faults source.now.text.now) ⊤ ⊤) }
{
    match reported {
        Ok(Some(reported)) => Ok(Outcome {
            output: reported.seen.into_bytes(),
            report: reported.report,
            status: status_of_end(reported.end),
        }),
        Ok(None) => failure_outcome::<N>(alloc, CommandFailure::Text, source),
        Err(error) => failure_outcome::<N>(alloc, CommandFailure::Refused(error), source),
    }
}

/// Runs the text, and answers its effects in order, and how it ends.
///
/// Statuses: 0 where it ends with values; 1 where memory was refused; 2 for an unreadable text; 3 where it traps, or
/// the steps or the world's answers are used up. With 1 and 2 nothing is to be written to the output. Errors:
/// allocation failure for what is reported. Cost: reading, and that of `evaluate_noting`.
pub fn run<N: Runnable>(
    alloc: Global,
    source: &Source,
    options: &RunOptions,
) -> Result<Outcome, AllocError>
    ensures { IfOk result (EndsEither (N.faults source.now.text.now) ⊤ ⊤) }
{
    let reported = run_text::<N>(alloc, source, options);
    outcome_of_run::<N>(alloc, source, reported)
}

/// The same, but the sink is given the effects as they come, and the output has only what the sink wasn't given.
///
/// Statuses: those of `run`. Errors: allocation failure for what is reported. Cost: that of `run` for a third more
/// moves than the run makes.
pub fn run_streamed<N: Runnable, S: EffectSink>(
    alloc: Global,
    source: &Source,
    options: &RunOptions,
    sink: &mut S,
) -> Result<Outcome, AllocError>
    ensures { IfOk result (EndsEither (N.faults source.now.text.now) ⊤ ⊤) }
{
    let reported = run_text_streamed::<N, S>(alloc, source, options, sink);
    outcome_of_run::<N>(alloc, source, reported)
}
