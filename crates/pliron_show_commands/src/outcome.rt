//! How a command ends.
ghost use Rattle.std.specs.Prelude.{◌≡◌, [], IfOk, string_bytes};
ghost use Rattle.pliron_show_commands.specs.Outcomes.{EndsBadly, IsRefused};
ghost use Rattle.pliron_show_commands.specs.Reports.{FaultsWord, TellsRefusal};

use crate::failure::CommandFailure;
use pliron_laws::OptError;
use pliron_show::ShownNotation;
use pliron_show_places::Source;
use std::alloc::{AllocError, Global};

/// What a command leaves to be written, and its status.
#[derive(Drop)]
pub struct Outcome {
    /// What is written to standard output, or to the file that is named. Where it is empty the file is left as it is.
    pub output: Vec<u8>,
    /// What is written to standard error.
    pub report: String,
    pub status: u8,
}

// The outcome of a command without an answer, with this report and status.
fn no_answer(alloc: Global, report: String, status: u8) -> Outcome
    ensures status { result.status ≡ status }
    ensures output { result.output.items ≡ [] }
    ensures report { string_bytes result.report ≡ string_bytes report }
{
    Outcome {
        output: Vec::new(alloc),
        report,
        status,
    }
}

/// The outcome where something can't be used, as this report says: nothing is to be written. Cost: constant.
pub(crate) fn unusable_outcome(alloc: Global, report: String) -> Outcome
    ensures status { result.status ≡ 2 }
    ensures output { result.output.items ≡ [] }
    ensures report { string_bytes result.report ≡ string_bytes report }
{
    no_answer(alloc, report, 2)
}

/// The outcome where something was refused, as this report says: nothing is to be written. Cost: constant.
#[tactic(auto, using(crate::proofs::EndingLemmas::refuses))]
pub(crate) fn refusing_outcome(alloc: Global, report: String) -> Outcome
    requires { TellsRefusal (string_bytes report) }
    ensures { IsRefused result }
{
    no_answer(alloc, report, 1)
}

// The report of a refusal, a line that ends with this reason. Errors: allocation failure.
fn refusal_report(alloc: Global, reason: &str) -> Result<String, AllocError>
    ensures { IfOk result (λ report. TellsRefusal (string_bytes report)) }
{
    let mut report = String::from_str(alloc, "error: refused: ")?;
    report.push_str(reason)?;
    Ok(report)
}

/// The outcome where memory or passes were refused. Errors: allocation failure. Cost: constant.
pub(crate) fn refused_by(alloc: Global, error: OptError) -> Result<Outcome, AllocError>
    ensures { IfOk result IsRefused }
{
    let reason = format!(in alloc; "{error}\n")?;
    Ok(refusing_outcome(alloc, refusal_report(alloc, reason.as_str())?))
}

/// The outcome of a command without an answer: nothing is to be written, and what went wrong is reported: of an
/// unreadable text, the fault that the notation finds in it.
///
/// Statuses: 2 for a text with a fault, else 1. Errors: allocation failure. Cost: that of reading the text.
#[tactic(auto, using(crate::proofs::EndingLemmas::faulty, crate::proofs::EndingLemmas::refused_badly))]
pub fn failure_outcome<N: ShownNotation>(
    alloc: Global,
    failure: CommandFailure,
    source: &Source,
) -> Result<Outcome, AllocError>
    ensures { IfOk result (EndsBadly (N.faults source.now.text.now)) }
{
    match failure {
        CommandFailure::Refused(error) => refused_by(alloc, error),
        CommandFailure::Text => match N::fault_message(alloc, source) {
            Ok(Some(report)) => Ok(unusable_outcome(alloc, report)),
            Ok(None) => {
                let report = refusal_report(alloc, "the text isn't read, and has no fault\n")?;
                Ok(refusing_outcome(alloc, report))
            }
            Err(error) => refused_by(alloc, error),
        },
    }
}

// What is reported where a name is that of no pass. Errors: allocation failure.
#[tactic(auto, using(crate::proofs::EndingLemmas::whole_line))]
fn no_passes_report(alloc: Global) -> Result<String, AllocError>
    ensures { IfOk result (λ report. FaultsWord (string_bytes report)) }
{
    String::from_str(alloc, "error: no such passes\n")
}

/// The outcome where a name is that of no pass: nothing is to be written. Errors: allocation failure. Cost: constant.
#[tactic(auto, using(crate::proofs::EndingLemmas::faulty))]
pub(crate) fn no_passes_outcome(alloc: Global) -> Result<Outcome, AllocError>
    ensures { IfOk result (EndsBadly FaultsWord) }
{
    Ok(unusable_outcome(alloc, no_passes_report(alloc)?))
}
