//! The edges of a function.
ghost use Rattle.std.specs.Prelude.{IfOk};
ghost use Rattle.pliron_text_llvm_edges.specs.Stops.{AreEdgesOf, IsEdgeForm};

use crate::edges::{BlockEdge, push_edges};
use crate::incoming::incoming_edges;
use crate::phis::{BlockPhi, push_phis};
use crate::stop::{EdgeFault, EdgeStop, KeptForEdges};
use pliron_text_llvm_functions::FunctionReading;
use std::alloc::Global;

/// Edges between the blocks of a function, and what they pass.
#[doc(hidden)]
#[derive(Debug, Drop)]
pub struct FunctionEdges {
    /// The edges, in the order of the text.
    pub edges: Vec<BlockEdge>,
    /// For each block the edges that lead to it, in their order.
    pub incoming: Vec<Vec<BlockEdge>>,
    /// The phis, in the order of the text.
    pub phis: Vec<BlockPhi>,
}

/// What is found of the edges of a function.
#[doc(hidden)]
#[derive(Debug, Drop)]
pub enum EdgeForm {
    Read(FunctionEdges),
    /// For what is at this byte the function is kept as it is written.
    Kept(usize, KeptForEdges),
}

// Reads the edges, or says what stops it.
fn read_all(
    alloc: Global,
    text: &[u8],
    reading: &FunctionReading,
) -> Result<FunctionEdges, EdgeStop>
    ensures { IfOk result (λ found. AreEdgesOf text.now reading.now found) }
{
    let mut edges = Vec::new(alloc);
    push_edges(reading, &mut edges)?;
    let incoming = incoming_edges(alloc, reading.body.blocks.len(), &edges)?;
    let mut phis = Vec::new(alloc);
    push_phis(alloc, text, reading, &incoming, &mut phis)?;
    Ok(FunctionEdges {
        edges,
        incoming,
        phis,
    })
}

/// Reads the edges of a function, and which value each of them passes to each phi of the block to which it leads: a phi
/// has an entry for each edge to its block. The function is kept as it is written where two entries of a phi for one
/// block are constants of two texts, which LLVM may take as one value.
///
/// Errors, with the place and what was expected there: an edge leads to the first block; a phi stands behind another
/// statement; its entries aren't one for each edge, or two for one block have two values; allocation failure. Cost:
/// linear in the lines and edges, a sort of the entries of each phi, and a search among the blocks for each edge and
/// each entry.
#[doc(hidden)]
pub fn read_edges(
    alloc: Global,
    text: &[u8],
    reading: &FunctionReading,
) -> Result<EdgeForm, EdgeFault>
    ensures { IfOk result (λ form. IsEdgeForm text.now reading.now form) }
{
    match read_all(alloc, text, reading) {
        Ok(found) => Ok(EdgeForm::Read(found)),
        Err(EdgeStop::Keep(place, reason)) => Ok(EdgeForm::Kept(place, reason)),
        Err(EdgeStop::Fault(fault)) => Err(fault),
    }
}
