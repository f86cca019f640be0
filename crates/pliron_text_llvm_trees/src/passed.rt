//! The values that edges pass.
ghost use Rattle.std.specs.Prelude.{◌≡◌, [], map, slice_get, slice_index_or, IfOk, IfSome, OnOk};
ghost use Rattle.pliron_text_llvm_trees.specs.Passed.{IsEntryFor, IsPassedTo, IsPassedToNumber, ArePassed, IsTreeEdge, AreTreeEdges};

use crate::stop::{KeptForTree, TreeStop};
use pliron_text_llvm_edges::{BlockEdge, BlockPhi, FunctionEdges, PhiEntry, place_of_hole};
use pliron_text_llvm_functions::FunctionReading;
use std::alloc::Global;

/// An edge, and the values that it passes.
#[doc(hidden)]
#[derive(Debug, Drop)]
pub struct TreeEdge {
    pub edge: BlockEdge,
    /// For each phi of the block to which it leads the number of the hole that has its value.
    pub passed: Vec<usize>,
}

// The entry for the block, among entries in the order of their blocks.
fn entry_for(entries: &[PhiEntry], block: usize) -> Option<PhiEntry>
    ensures { IfSome result (λ entry. IsEntryFor entries.now block entry) }
{
    let number = match entries.binary_search_by_key(&block, |entry| entry.block) {
        Ok(number) => number,
        Err(number) => number,
    };
    match entries.get(number) {
        Some(entry) if entry.block == block => Some(*entry),
        _ => None,
    }
}

// What the edge passes to the phi, if it passes something.
fn value_passed(edge: BlockEdge, phi: &BlockPhi) -> Option<usize>
    ensures { IfSome result (λ hole. IsPassedTo edge phi.now hole) }
{
    match entry_for(&phi.entries, edge.from) {
        Some(entry) => Some(entry.value),
        None => None,
    }
}

// What the edge passes to the phi of this number, if it passes something.
fn value_for(phis: &[BlockPhi], edge: BlockEdge, number: usize) -> Option<usize>
    ensures { IfSome result (λ hole. IsPassedToNumber phis.now edge number hole) }
{
    if number >= phis.len() {
        return None;
    }
    value_passed(edge, &phis[number])
}

// Adds what the edge passes to the phis of these numbers to nothing.
#[tactic(auto, using(crate::proofs::PassedLemmas::passed_none, crate::proofs::PassedLemmas::passed_more, crate::proofs::PassedLemmas::passed_all))]
fn push_values(
    reading: &FunctionReading,
    phis: &[BlockPhi],
    edge: BlockEdge,
    numbers: &[usize],
    passed: &mut Vec<usize>,
) -> Result<(), TreeStop>
    requires { passed.old.items ≡ [] }
    ensures { OnOk result (ArePassed phis.now edge numbers.now passed.new.items) }
{
    for number in numbers {
        match value_for(phis, edge, *number) {
            Some(hole) => passed.push(hole)?,
            None => {
                let at = place_of_hole(reading, edge.hole);
                return Err(TreeStop::Keep(at, KeptForTree::Unpassed));
            }
        }
    }
    Ok(())
}

// The numbers of the phis of the block.
#[tactic(auto, using(crate::proofs::PassedLemmas::into_some, crate::proofs::PassedLemmas::into_none))]
fn numbers_into(by_block: &[Vec<usize>], block: usize) -> &[usize]
    ensures { result.now ≡ slice_index_or (map (λ list. list.items) by_block.now) block [] }
{
    match by_block.get(block) {
        Some(numbers) => numbers,
        None => &[],
    }
}

// The edge with what it passes.
fn read_edge(
    alloc: Global,
    reading: &FunctionReading,
    phis: &[BlockPhi],
    by_block: &[Vec<usize>],
    edge: BlockEdge,
) -> Result<TreeEdge, TreeStop>
    ensures edge { IfOk result (λ found. found.edge ≡ edge) }
    ensures tree { IfOk result (λ found. IsTreeEdge phis.now (map (λ list. list.items) by_block.now) found) }
{
    let mut passed = Vec::new(alloc);
    let numbers = numbers_into(by_block, edge.to);
    match push_values(reading, phis, edge, numbers, &mut passed) {
        Ok(()) => Ok(TreeEdge { edge, passed }),
        Err(stop) => Err(stop),
    }
}

/// Adds the edges of a function to none, in the order of the text, each with the values that it passes: to each phi of
/// the block to which it leads the value that the phi has for the block from which it comes. The phis of each block
/// have the numbers `by_block`.
///
/// Asks that there is no edge yet. Errors: a phi has no value for an edge, and so the function is kept as it is written;
/// allocation failure. Cost: a search among the entries of a phi for each value that is passed.
#[doc(hidden)]
#[tactic(auto, using(crate::proofs::PassedLemmas::edges_none, crate::proofs::PassedLemmas::edges_more, crate::proofs::PassedLemmas::edges_all))]
pub fn push_tree_edges(
    alloc: Global,
    reading: &FunctionReading,
    found: &FunctionEdges,
    by_block: &[Vec<usize>],
    edges: &mut Vec<TreeEdge>,
) -> Result<(), TreeStop>
    requires { edges.old.items ≡ [] }
    ensures { OnOk result (AreTreeEdges found.now.phis.items
        (map (λ list. list.items) by_block.now) found.now.edges.items edges.new.items) }
{
    for edge in &found.edges {
        let read = read_edge(alloc, reading, &found.phis, by_block, *edge)?;
        edges.push(read)?;
    }
    Ok(())
}
