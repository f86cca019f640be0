//! How the commands that draw end.
ghost use Rattle.std.specs.Prelude.{◌≡◌, IfOk, string_bytes};
ghost use Rattle.pliron_show_commands.specs.Outcomes.{EndsBadly};
ghost use Rattle.pliron_show_commands.specs.Reports.{FaultsGraph, FaultsRegion};

use crate::graph_fault::graph_fault_message;
use crate::outcome::unusable_outcome;
use crate::{Outcome, Source};
use std::alloc::{AllocError, Global};

// What is reported where no region has this path.
fn region_message(alloc: Global, path: &str) -> Result<String, AllocError>
    ensures { IfOk result (λ report. FaultsRegion path.now (string_bytes report)) }
{
    let mut report = format!(in alloc; "error: no region `{path}`\n")?;
    report.push_str(
        "help: `0.2.0` is region 0 of operation 2 of region 0 of the text's operation\n",
    )?;
    Ok(report)
}

/// The outcome where no region has this path: nothing is to be written, and the path is reported. Errors: allocation
/// failure. Cost: linear in the path.
#[tactic(auto, using(crate::proofs::EndingLemmas::faulty))]
pub fn region_outcome(alloc: Global, path: &str) -> Result<Outcome, AllocError>
    ensures { IfOk result (EndsBadly (FaultsRegion path.now)) }
{
    Ok(unusable_outcome(alloc, region_message(alloc, path)?))
}

/// The outcome where the text isn't that of a graph: nothing is to be written, and a place where it isn't is reported.
/// Errors: allocation failure. Cost: that of reading the text.
#[tactic(auto, using(crate::proofs::EndingLemmas::faulty))]
pub fn graph_outcome(alloc: Global, source: &Source) -> Result<Outcome, AllocError>
    ensures { IfOk result (EndsBadly FaultsGraph) }
{
    Ok(unusable_outcome(alloc, graph_fault_message(alloc, source)?))
}

/// The outcome of a command with this answer. Cost: constant.
pub fn success_outcome(alloc: Global, output: Vec<u8>) -> Outcome
    ensures status { result.status ≡ 0 }
    ensures output { result.output.items ≡ output.items }
{
    Outcome {
        output,
        report: String::new(alloc),
        status: 0,
    }
}
