//! The description of a graph.
ghost use Rattle.std.specs.Prelude.{◌≢◌, ⊤, IfErr};
ghost use Rattle.pliron_driver_buffers.specs.Fills.{Fills};

use crate::buffer::fill;
use crate::status::{CallFailure, Status};
use pliron_driver::{MAX_TEXT, describe_graph};
use std::alloc::Global;

// What the program describes of a graph. Errors: the text is no graph or too long; allocation failure.
fn answer_of_graph(alloc: Global, text: &[u8]) -> Result<Vec<u8>, CallFailure>
    ensures { IfErr result (λ failure. failure ≢ CallFailure.Arguments) }
{
    if text.len() > MAX_TEXT {
        return Err(CallFailure::Text);
    }
    match describe_graph(alloc, text) {
        Ok(Some(answer)) => Ok(answer),
        Ok(None) => Err(CallFailure::Text),
        Err(error) => Err(CallFailure::of(error)),
    }
}

/// Puts a graph's orders, search numbers, kinds of edges and components into the buffer, and reports their length, or 0
/// where the text is no graph.
///
/// Nothing is written to the buffer unless the whole answer fits. Cost: linear in the text, but for an ordered map of
/// the numbers of its nodes and for sorting each component.
pub fn describe_graph_into(
    alloc: Global,
    text: &[u8],
    output: &mut [u8],
    needed: &mut usize,
) -> Status
    ensures { Fills (λ answer. ⊤) (λ failure. failure ≢ CallFailure.Arguments) output.old output.new needed.new result }
{
    fill(answer_of_graph(alloc, text), output, needed)
}
