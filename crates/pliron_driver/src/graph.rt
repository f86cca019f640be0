//! The description of a graph, which is read from a text of its own and has no tree.
mod graph_lines;

use pliron_graph_components::read_graph;
use pliron_laws::OptError;
use std::alloc::Global;

/// What the program writes for a graph; `None` for a text that is none.
///
/// Errors: allocation failure. Cost: that of reading and printing it.
pub fn describe_graph(alloc: Global, text: &[u8]) -> Result<Option<Vec<u8>>, OptError> {
    match read_graph(alloc, text)? {
        Some(graph) => Ok(Some(graph_lines::print_graph(alloc, &graph)?.into_bytes())),
        None => Ok(None),
    }
}
