//! The edges that lead to each block.
ghost use Rattle.std.specs.Prelude.{◌≡◌, [], map, replicate, IfOk, OnOk};
ghost use Rattle.pliron_text_llvm_edges.specs.Successors.{AreIncomingEdges};
ghost use Rattle.pliron_text_llvm_edges.specs.Incoming.{with_incoming};

use crate::edges::BlockEdge;
use std::alloc::{AllocError, Global};

// So many empty lists.
fn empty_lists(alloc: Global, count: usize) -> Result<Vec<Vec<BlockEdge>>, AllocError>
    ensures { IfOk result (λ lists. map (λ list. list.items) lists.items ≡ replicate count []) }
{
    let mut lists = Vec::with_capacity(alloc, count)?;
    while lists.len() < count {
        lists.push(Vec::new(alloc))?;
    }
    Ok(lists)
}

// Adds the edge to the list of the block to which it leads, if there is one.
#[tactic(auto, using(crate::proofs::IncomingLemmas::incoming_put, crate::proofs::IncomingLemmas::incoming_past))]
fn add_incoming(lists: &mut Vec<Vec<BlockEdge>>, edge: BlockEdge) -> Result<(), AllocError>
    ensures { OnOk result (map (λ list. list.items) lists.new.items
        ≡ with_incoming edge (map (λ list. list.items) lists.old.items)) }
{
    if edge.to < lists.len() {
        lists[edge.to].push(edge)?;
    }
    Ok(())
}

/// For each of so many blocks the edges that lead to it, in their order. Errors: allocation failure. Cost: linear in
/// the blocks and edges.
#[doc(hidden)]
#[tactic(auto, using(crate::proofs::IncomingLemmas::incoming_none, crate::proofs::IncomingLemmas::incoming_more, crate::proofs::IncomingLemmas::incoming_all))]
pub fn incoming_edges(
    alloc: Global,
    count: usize,
    edges: &[BlockEdge],
) -> Result<Vec<Vec<BlockEdge>>, AllocError>
    ensures { IfOk result (λ lists. AreIncomingEdges count edges.now (map (λ list. list.items) lists.items)) }
{
    let mut lists = empty_lists(alloc, count)?;
    for edge in edges {
        add_incoming(&mut lists, *edge)?;
    }
    Ok(lists)
}
