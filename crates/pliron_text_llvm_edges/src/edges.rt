//! Edges from the statements that end blocks.
ghost use Rattle.std.specs.Prelude.{◌≡◌, ◌++◌, ◌-◌, [], map, IfOk, OnOk};
ghost use Rattle.std.specs.List.{All};
ghost use Rattle.std.specs.Option.{option_copied};
ghost use Rattle.pliron_text_llvm_edges.specs.Numbers.{in_block, numbers_passing};
ghost use Rattle.pliron_text_llvm_edges.specs.Successors.{place_of_edge, successors_in, successors_of_block, is_successor_at, LeadsToItsBlock, AreFunctionEdges};

use crate::stop::{EdgeRefusal, EdgeStop, KeptForEdges, refusal_at};
use crate::targets::{block_named, is_successor_at, place_of_hole};
use pliron_text_llvm_functions::FunctionReading;
use pliron_text_llvm_reader::{BlockLines, BodyLine, BodyStatement};

/// An edge between blocks.
#[doc(hidden)]
#[derive(Clone, Copy, Debug, Drop, PartialEq, Eq)]
pub struct BlockEdge {
    /// The number of the block that it comes from.
    pub from: usize,
    /// The number of the hole that names the block to which it leads.
    pub hole: usize,
    /// The number of that block.
    pub to: usize,
}

// The edge from the block, by the successor in the hole.
fn edge_by(reading: &FunctionReading, from: usize, hole: usize) -> Result<BlockEdge, EdgeStop>
    ensures source { IfOk result (λ edge. place_of_edge edge ≡ (from, hole)) }
    ensures leads { IfOk result (λ edge. LeadsToItsBlock reading.now edge) }
{
    match block_named(reading, hole) {
        Some(0) => Err(refusal_at(place_of_hole(reading, hole), EdgeRefusal::FirstBlock)),
        Some(to) => Ok(BlockEdge { from, hole, to }),
        None => Err(EdgeStop::Keep(place_of_hole(reading, hole), KeptForEdges::Successor)),
    }
}

// Adds the edge from the block by the hole, if a successor is in it.
#[tactic(auto, using(crate::proofs::EdgeLemmas::edge_pushed, crate::proofs::EdgeLemmas::edge_unpushed, crate::proofs::EdgeLemmas::edges_lead))]
fn push_edge(
    reading: &FunctionReading,
    from: usize,
    hole: usize,
    edges: &mut Vec<BlockEdge>,
) -> Result<(), EdgeStop>
    requires { All (LeadsToItsBlock reading.now) edges.old.items }
    ensures sources { OnOk result (map place_of_edge edges.new.items ≡ map place_of_edge edges.old.items
        ++ in_block from (numbers_passing (is_successor_at reading.now.body.holes.items) hole 1)) }
    ensures leads { OnOk result (All (LeadsToItsBlock reading.now) edges.new.items) }
{
    if is_successor_at(&reading.body.holes, hole) {
        edges.push(edge_by(reading, from, hole)?)?;
    }
    Ok(())
}

// Adds the edges from the block by the successors of the statement.
#[tactic(auto, using(crate::proofs::NumberLemmas::passing_more, crate::proofs::NumberLemmas::passing_all))]
fn push_successors(
    reading: &FunctionReading,
    from: usize,
    line: &BodyStatement,
    edges: &mut Vec<BlockEdge>,
) -> Result<(), EdgeStop>
    requires { All (LeadsToItsBlock reading.now) edges.old.items }
    ensures sources { OnOk result (map place_of_edge edges.new.items ≡ map place_of_edge edges.old.items
        ++ in_block from (numbers_passing (is_successor_at reading.now.body.holes.items) line.now.first_hole
        (line.now.end_hole - line.now.first_hole))) }
    ensures leads { OnOk result (All (LeadsToItsBlock reading.now) edges.new.items) }
{
    for hole in line.first_hole..line.end_hole {
        push_edge(reading, from, hole, edges)?;
    }
    Ok(())
}

// Adds the edges from the block that this line ends.
fn push_edges_of_line(
    reading: &FunctionReading,
    from: usize,
    line: Option<&BodyLine>,
    edges: &mut Vec<BlockEdge>,
) -> Result<(), EdgeStop>
    requires { All (LeadsToItsBlock reading.now) edges.old.items }
    ensures sources { OnOk result (map place_of_edge edges.new.items ≡ map place_of_edge edges.old.items
        ++ in_block from (successors_in reading.now.body.holes.items (option_copied line.entry))) }
    ensures leads { OnOk result (All (LeadsToItsBlock reading.now) edges.new.items) }
{
    match line {
        Some(BodyLine::Statement(line)) => push_successors(reading, from, line, edges),
        Some(BodyLine::Label(_)) | None => Ok(()),
    }
}

// Adds the edges from the block.
fn push_edges_of_block(
    reading: &FunctionReading,
    from: usize,
    block: BlockLines,
    edges: &mut Vec<BlockEdge>,
) -> Result<(), EdgeStop>
    requires { All (LeadsToItsBlock reading.now) edges.old.items }
    ensures sources { OnOk result (map place_of_edge edges.new.items ≡ map place_of_edge edges.old.items
        ++ in_block from (successors_of_block reading.now.body block)) }
    ensures leads { OnOk result (All (LeadsToItsBlock reading.now) edges.new.items) }
{
    let last = block.end.saturating_sub(1);
    push_edges_of_line(reading, from, reading.body.lines.get(last), edges)
}

/// Adds the edges of a function to none, in the order of the text: one for each successor of a statement that ends a
/// block.
///
/// Asks that there is no edge yet. Errors: an edge leads to the first block; a successor names no block; allocation
/// failure. Cost: linear in the successors, and a search among the blocks for each.
#[doc(hidden)]
#[tactic(auto, using(crate::proofs::NumberLemmas::blocks_more, crate::proofs::NumberLemmas::blocks_all, crate::proofs::EdgeLemmas::edges_begun, crate::proofs::EdgeLemmas::edges_none))]
pub fn push_edges(reading: &FunctionReading, edges: &mut Vec<BlockEdge>) -> Result<(), EdgeStop>
    requires { edges.old.items ≡ [] }
    ensures { OnOk result (AreFunctionEdges reading.now edges.new.items) }
{
    let mut number = 0;
    for block in &reading.body.blocks {
        push_edges_of_block(reading, number, *block, edges)?;
        number += 1;
    }
    Ok(())
}
