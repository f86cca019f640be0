//! Arguments of blocks, which are the phis of the text.
ghost use Rattle.std.specs.Prelude.{◌≡◌, [], map, replicate, IfOk, OnOk};
ghost use Rattle.pliron_text_llvm_trees.specs.Results.{IsResultAt};
ghost use Rattle.pliron_text_llvm_trees.specs.Arguments.{with_phi_number, IsArgument, AreTreeArguments, ArePhisByBlock};

use crate::results::result_at;
use crate::stop::{KeptForTree, TreeStop};
use pliron_text_llvm_edges::{BlockPhi, PhiPlace};
use pliron_text_llvm_functions::FunctionReading;
use std::alloc::{AllocError, Global};

/// An argument of a block, which is a phi.
#[doc(hidden)]
#[derive(Clone, Copy, Debug, Drop, PartialEq, Eq)]
pub struct TreeArgument {
    /// Where the phi is.
    pub place: PhiPlace,
    /// The number of the definition that is what it gives.
    pub definition: usize,
}

// Where the line is in the text.
fn place_of_line(reading: &FunctionReading, line: usize) -> usize {
    match reading.body.lines.get(line) {
        Some(line) => line.span().start,
        None => 0,
    }
}

// The argument that is the phi of this place.
fn argument_at(reading: &FunctionReading, place: PhiPlace) -> Result<TreeArgument, TreeStop>
    ensures place { IfOk result (λ argument. argument.place ≡ place) }
    ensures defined { IfOk result (λ argument. IsArgument reading.now.definitions.items argument) }
{
    match result_at(&reading.definitions, place.line) {
        Some(definition) => Ok(TreeArgument { place, definition }),
        None => {
            let at = place_of_line(reading, place.line);
            Err(TreeStop::Keep(at, KeptForTree::Unnumbered))
        }
    }
}

/// Adds the arguments that are the phis of a function to none, in their order.
///
/// Asks that there is no argument yet. Errors: a phi gives nothing that is defined, and so the function is kept as it is
/// written; allocation failure. Cost: a search among the definitions for each.
#[doc(hidden)]
#[tactic(auto, using(crate::proofs::ArgumentLemmas::arguments_none, crate::proofs::ArgumentLemmas::arguments_more, crate::proofs::ArgumentLemmas::arguments_all))]
pub fn push_arguments(
    reading: &FunctionReading,
    phis: &[BlockPhi],
    arguments: &mut Vec<TreeArgument>,
) -> Result<(), TreeStop>
    requires { arguments.old.items ≡ [] }
    ensures { OnOk result (AreTreeArguments reading.now.definitions.items phis.now arguments.new.items) }
{
    for phi in phis {
        let argument = argument_at(reading, phi.place)?;
        arguments.push(argument)?;
    }
    Ok(())
}

// So many empty lists.
fn empty_lists(alloc: Global, count: usize) -> Result<Vec<Vec<usize>>, AllocError>
    ensures { IfOk result (λ lists. map (λ list. list.items) lists.items ≡ replicate count []) }
{
    let mut lists = Vec::with_capacity(alloc, count)?;
    while lists.len() < count {
        lists.push(Vec::new(alloc))?;
    }
    Ok(lists)
}

// Adds the number to the list of the block, if there is one.
#[tactic(auto, using(crate::proofs::ArgumentLemmas::number_put, crate::proofs::ArgumentLemmas::number_past))]
fn add_number(lists: &mut Vec<Vec<usize>>, block: usize, number: usize) -> Result<(), AllocError>
    ensures { OnOk result (map (λ list. list.items) lists.new.items
        ≡ with_phi_number block number (map (λ list. list.items) lists.old.items)) }
{
    if block < lists.len() {
        lists[block].push(number)?;
    }
    Ok(())
}

/// For each of so many blocks the numbers of its phis, in their order. Errors: allocation failure. Cost: linear in the
/// blocks and phis.
#[doc(hidden)]
#[tactic(auto, using(crate::proofs::ArgumentLemmas::lists_none, crate::proofs::ArgumentLemmas::lists_more, crate::proofs::ArgumentLemmas::lists_all))]
pub fn phis_by_block(
    alloc: Global,
    count: usize,
    phis: &[BlockPhi],
) -> Result<Vec<Vec<usize>>, AllocError>
    ensures { IfOk result (λ lists. ArePhisByBlock count phis.now (map (λ list. list.items) lists.items)) }
{
    let mut lists = empty_lists(alloc, count)?;
    for number in 0..phis.len() {
        add_number(&mut lists, phis[number].place.block, number)?;
    }
    Ok(lists)
}
