//! The commands that draw.
ghost use Rattle.std.specs.Prelude.{◌⊎◌, ⊤, IfOk};
ghost use Rattle.pliron_show_commands.specs.Outcomes.{EndsEither};
ghost use Rattle.pliron_show_commands.specs.Reports.{FaultsGraph, FaultsRegion};
ghost use Rattle.pliron_show.specs.Faults.{faults_as_unreadable};
ghost use Rattle.pliron_show_graphs.specs.Drawn.{IsFlowText};

use crate::ending::{graph_outcome, region_outcome, success_outcome};
use crate::outcome::failure_outcome;
use crate::{CommandFailure, Outcome, Source};
use pliron_driver::BenchNotation;
use pliron_show::ShownNotation;
use pliron_show_graphs::{Drawing, FlowOptions, text_flow, text_graph};
use std::alloc::{AllocError, Global};

/// Draws the control flow of a region of the text's operation in the dot language: blocks with their operations, edges
/// with forwarded values, unreached blocks in grey, and, where asked for, a dotted edge from each immediate dominator.
///
/// Statuses: 0; 1 on allocation failure; 2 for an unreadable text, and where no region has the path. With 1 and 2
/// nothing is to be written to the output. Errors: allocation failure for what is reported. Cost: reading, and that of
/// `graph_rows`.
#[tactic(auto, using(crate::proofs::EndingLemmas::text_fails, crate::proofs::EndingLemmas::other_fails))]
pub fn draw_flow<N: ShownNotation>(
    alloc: Global,
    source: &Source,
    options: &FlowOptions,
) -> Result<Outcome, AllocError>
    ensures { IfOk result (EndsEither (λ report. N.faults source.now.text.now report
        ⊎ FaultsRegion options.now.region.now report) (IsFlowText N.reads source.now.text.now) ⊥) }
{
    match text_flow::<N>(alloc, source.text, options) {
        Ok(Drawing::Drawn(picture)) => Ok(success_outcome(alloc, picture)),
        Ok(Drawing::Unreadable) => { failure_outcome::<N>(alloc, CommandFailure::Text, source) }
        Ok(Drawing::NoRegion) => region_outcome(alloc, options.region),
        Err(error) => failure_outcome::<N>(alloc, CommandFailure::Refused(error), source),
    }
}

/// Draws a graph in the dot language. Its text has a line for each node, with its number, a colon, and its successors,
/// each after one blank. Each cyclic component is drawn in a frame, and the colour of an edge shows its kind in a
/// depth-first search: black for forward, red for back, blue for cross, and grey where the search doesn't reach.
///
/// Statuses: 0; 1 on allocation failure; 2 for another text. With 1 and 2 nothing is to be written to the output.
/// Errors: allocation failure for what is reported. Cost: that of `read_graph`, and linear but for sorting each
/// component.
#[tactic(auto, using(crate::proofs::EndingLemmas::text_fails, crate::proofs::EndingLemmas::other_fails))]
pub fn draw_graph(alloc: Global, source: &Source) -> Result<Outcome, AllocError>
    ensures { IfOk result (EndsEither (λ report. faults_as_unreadable source.now.text.now report
        ⊎ FaultsGraph report) ⊤ ⊥) }
{
    match text_graph(alloc, source.text) {
        Ok(Some(picture)) => Ok(success_outcome(alloc, picture)),
        Ok(None) => graph_outcome(alloc, source),
        Err(error) => failure_outcome::<BenchNotation>(
            alloc,
            CommandFailure::Refused(error),
            source,
        ),
    }
}
