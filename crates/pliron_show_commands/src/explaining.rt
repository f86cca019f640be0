//! The command that explains what passes did.
ghost use Rattle.std.specs.Prelude.{◌≡◌, ◌⊎◌, ⊤, length, IfOk, IfSome};
ghost use Rattle.pliron_show_commands.specs.Outcomes.{EndsEither};
ghost use Rattle.pliron_show_commands.specs.Reports.{FaultsWord};

use crate::ending::success_outcome;
use crate::outcome::{failure_outcome, no_passes_outcome};
use crate::refusal::refused_outcome;
use crate::{CommandFailure, Outcome, Source, misspelling_outcome};
use pliron_driver_instrument::{PipelineText, PlanError};
use pliron_laws::OptError;
use pliron_pass_pipeline::PassName;
use pliron_show::ShownNotation;
use pliron_show_graphs::{PassList, explain_changes};
use std::alloc::{AllocError, Global};

// The outcome for these lines; where there is none, one says so, but of JSON.
fn explanation_outcome(alloc: Global, lines: String, is_json: bool) -> Result<Outcome, AllocError>
    ensures { IfOk result (λ outcome. outcome.status ≡ 0) }
{
    if lines.is_empty() && !is_json {
        let none = Vec::from_slice(alloc, b"nothing of the text changed or went\n")?;
        Ok(success_outcome(alloc, none))
    } else {
        Ok(success_outcome(alloc, lines.into_bytes()))
    }
}

// The passes of these names, if each is the name of one.
fn passes_of(alloc: Global, names: &[&str]) -> Result<Option<Vec<PassName>>, AllocError>
    ensures { IfOk result (λ found. IfSome found (λ passes. length passes.items ≡ length names.now)) }
{
    let mut passes = Vec::new(alloc);
    for name in names {
        let Some(pass) = PassName::from_name(name) else {
            return Ok(None);
        };
        passes.push(pass)?;
    }
    Ok(Some(passes))
}

// The passes that the plan asks for, if each of its names is that of one.
fn list_of(
    alloc: Global,
    plan: &PipelineText,
    options: &ExplainOptions,
) -> Result<Option<PassList>, AllocError>
    ensures nested { IfOk result (λ found. IfSome found (λ list. list.is_nested ≡ plan.now.nested)) }
    ensures passes { IfOk result (λ found. IfSome found
        (λ list. length list.passes.items ≡ length plan.now.names.items)) }
{
    match passes_of(alloc, &plan.names)? {
        Some(passes) => Ok(Some(PassList {
            runs: plan.runs.unwrap_or(1),
            is_nested: plan.nested,
            passes,
            reports_missed: options.missed,
            is_json: options.json,
        })),
        None => Ok(None),
    }
}

// Explains what the passes that the plan asks for did.
#[tactic(auto, using(crate::proofs::EndingLemmas::text_fails, crate::proofs::EndingLemmas::other_fails, crate::proofs::CommandLemmas::refused_so))]
fn explain_by<N: ShownNotation>(
    alloc: Global,
    source: &Source,
    plan: &PipelineText,
    options: &ExplainOptions,
) -> Result<Outcome, AllocError>
    ensures { IfOk result (EndsEither (λ report. N.faults source.now.text.now report ⊎ FaultsWord report) ⊤ ⊥) }
{
    let Some(list) = list_of(alloc, plan, options)? else {
        return no_passes_outcome(alloc);
    };
    match explain_changes::<N>(alloc, source.text, &list) {
        Ok(Some(lines)) => explanation_outcome(alloc, lines, options.json),
        Ok(None) => failure_outcome::<N>(alloc, CommandFailure::Text, source),
        Err(error) => refused_outcome::<N>(alloc, source, error, plan),
    }
}

/// What is explained.
#[derive(Clone, Copy)]
pub struct ExplainOptions<'w> {
    /// The passes, as a word.
    pub pipeline: &'w str,
    /// Whether what they left unchanged is reported, too, and why.
    pub missed: bool,
    /// Whether each line is an object of JSON.
    pub json: bool,
}

/// Explains what the passes that the word asks for changed in a text: place and reason of each operation and argument
/// that changed or was erased; where the options ask for missed operations, also of each that the passes left alone
/// though they change operations of its kind.
///
/// Statuses: 0; 1 where memory or the passes were refused; 2 for an unreadable text, or a word that asks for no passes.
/// With 1 and 2 nothing is to be written to the output. Errors: allocation failure for what is reported. Cost: that of
/// `explain_changes`.
#[tactic(auto, using(crate::proofs::EndingLemmas::text_fails, crate::proofs::EndingLemmas::other_fails))]
pub fn explain<N: ShownNotation>(
    alloc: Global,
    source: &Source,
    options: &ExplainOptions,
) -> Result<Outcome, AllocError>
    ensures { IfOk result (EndsEither (λ report. N.faults source.now.text.now report ⊎ FaultsWord report) ⊤ ⊥) }
{
    match PipelineText::read(alloc, options.pipeline) {
        Ok(plan) => explain_by::<N>(alloc, source, &plan, options),
        Err(PlanError::Word(fault)) => misspelling_outcome(alloc, options.pipeline, &fault),
        Err(PlanError::Memory) => failure_outcome::<N>(
            alloc,
            CommandFailure::Refused(OptError::Memory),
            source,
        ),
    }
}
