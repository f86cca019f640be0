//! Whether a text's operation is fit to run.
ghost use Rattle.std.specs.Prelude.{◌≡◌, [], IfOk, IfSome};
ghost use Rattle.pliron_core.specs.Writes.{no_tree};
ghost use Rattle.pliron_show_commands.specs.CheckOutcome.{IsChecked, IsReportedFit, IsUnfitText};
ghost use Rattle.pliron_show_commands.specs.Findings.{IsFinding};
ghost use Rattle.pliron_show_commands.specs.Outcomes.{EndsEither};

use crate::failure::CommandFailure;
use crate::one_by_one::{first_unfit, is_container};
use crate::outcome::{Outcome, failure_outcome};
use crate::unfit_report::unfit_report;
use pliron_core::{Context, Operation, Ptr};
use pliron_driver::Notation;
use pliron_laws::OptError;
use pliron_pass_fit::Violation;
use pliron_show::ShownNotation;
use pliron_show_places::Source;
use std::alloc::{AllocError, Global};

/// What a check finds of a text.
#[derive(Clone, Copy)]
pub enum CheckOutcome {
    /// The text is outside the notation.
    Unreadable,
    /// Its operation is fit to run.
    Fit,
    /// No run begins at its operation, as at a `mod`, and each part inside it, as a `func`, is fit to run.
    FitByParts,
    /// This violation keeps this operation from being fit to run: the text's or, where no run begins at that, a part
    /// inside it.
    Unfit(Ptr<Operation>, Violation),
}

/// Reads a text of any notation into the context, and checks whether its operation is fit to run, or, where no run
/// begins at it, whether each part inside it is.
///
/// Asks that the context is empty. Errors: allocation failure. Cost: reading, a walk over what is inside, and that of
/// `find_violation` for the operation or for each part.
#[tactic(auto, using(crate::proofs::PartLemmas::parts_found))]
pub fn check_text<N: Notation>(
    alloc: Global,
    text: &[u8],
    ctx: &mut Context,
) -> Result<CheckOutcome, OptError>
    requires { ctx.old.tree ≡ no_tree }
    ensures { IfOk result (IsChecked N.reads N.D.meaning text.now) }
{
    let Some(root) = N::read(alloc, text, ctx)? else {
        return Ok(CheckOutcome::Unreadable);
    };
    match first_unfit::<N::D>(alloc, root, ctx)? {
        Some(found) => Ok(CheckOutcome::Unfit(found.0, found.1)),
        None if is_container(root, ctx) => Ok(CheckOutcome::FitByParts),
        None => Ok(CheckOutcome::Fit),
    }
}

/// What is reported of a text's operation.
#[derive(Drop)]
pub(crate) enum Finding {
    /// It is fit to run.
    Whole,
    /// No run begins at it, and each part inside it is fit to run.
    ByParts,
    /// Something keeps it, or a part inside it, from being fit to run: this report says what.
    Wrong(String),
}

// What is reported of the operation of a text; `None` for an unreadable one. Errors: allocation failure. Cost: that of
// `check_text`.
pub(crate) fn find_message<N: ShownNotation>(
    alloc: Global,
    source: &Source,
) -> Result<Option<Finding>, OptError>
    ensures { IfOk result (λ found. IfSome found (IsFinding N.reads N.D.meaning source.now.text.now)) }
{
    let mut ctx = Context::new(alloc);
    find_message_in::<N>(alloc, source, &mut ctx)
}

// The same in this context.
#[tactic(auto, using(crate::proofs::CommandLemmas::whole_when, crate::proofs::CommandLemmas::parts_when, crate::proofs::CommandLemmas::unfit_when))]
fn find_message_in<N: ShownNotation>(
    alloc: Global,
    source: &Source,
    ctx: &mut Context,
) -> Result<Option<Finding>, OptError>
    requires { ctx.old.tree ≡ no_tree }
    ensures { IfOk result (λ found. IfSome found (IsFinding N.reads N.D.meaning source.now.text.now)) }
{
    match check_text::<N>(alloc, source.text, ctx)? {
        CheckOutcome::Unreadable => Ok(None),
        CheckOutcome::Fit => Ok(Some(Finding::Whole)),
        CheckOutcome::FitByParts => Ok(Some(Finding::ByParts)),
        CheckOutcome::Unfit(part, _) => {
            let report = unfit_report::<N>(alloc, source, part, ctx)?;
            Ok(Some(Finding::Wrong(report)))
        }
    }
}

// The outcome where the text's operation is fit to run, which this line says. Errors: allocation failure.
fn fit_outcome(alloc: Global, line: &[u8]) -> Result<Outcome, AllocError>
    ensures output { IfOk result (λ outcome. outcome.output.items ≡ line.now) }
    ensures status { IfOk result (λ outcome. outcome.status ≡ 0) }
{
    Ok(Outcome {
        output: Vec::from_slice(alloc, line)?,
        report: String::new(alloc),
        status: 0,
    })
}

/// Checks whether the operation of a text is well linked and fit to run, and reports all that keeps it from that, in the
/// order of the text: the first hundred violations, and how many more there are. Of an operation at which no run begins,
/// as a `mod`, each part inside, as a `func`, is checked instead.
///
/// Statuses: 0 where there is no violation; 1 where memory was refused; 2 for an unreadable text; 3 for a violation.
/// With all but 0 nothing is to be written to the output. Errors: allocation failure for what is reported. Cost: that
/// of `check_text`, and where something is wrong that of `find_violations`, and n log n for n violations.
#[tactic(auto, using(crate::proofs::CommandLemmas::says_whole, crate::proofs::CommandLemmas::says_parts, crate::proofs::CommandLemmas::says_unfit))]
pub fn check<N: ShownNotation>(alloc: Global, source: &Source) -> Result<Outcome, AllocError>
    ensures { IfOk result (λ outcome. EndsEither (N.faults source.now.text.now)
        (IsReportedFit N.reads N.D.meaning source.now.text.now outcome.output.items)
        (IsUnfitText N.reads N.D.meaning source.now.text.now × (outcome.output.items ≡ [])) outcome) }
{
    match find_message::<N>(alloc, source) {
        Ok(Some(Finding::Whole)) => fit_outcome(alloc, b"well linked and fit to run\n"),
        Ok(Some(Finding::ByParts)) => fit_outcome(alloc, b"fit to run, each part by itself\n"),
        Ok(Some(Finding::Wrong(report))) => Ok(Outcome {
            output: Vec::new(alloc),
            report,
            status: 3,
        }),
        Ok(None) => failure_outcome::<N>(alloc, CommandFailure::Text, source),
        Err(error) => failure_outcome::<N>(alloc, CommandFailure::Refused(error), source),
    }
}
