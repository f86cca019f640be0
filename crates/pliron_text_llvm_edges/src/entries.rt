//! Entries of phis.
ghost use Rattle.std.specs.Prelude.{◌≡◌, ◌<◌, true, [], map, IsPermutation, IfOk, OnOk};
ghost use Rattle.std.specs.List.Sorted.{IsNonDecreasingBy};
ghost use Rattle.pliron_text_llvm_edges.specs.Phis.{IsEntryAt, AreEntriesOf, HaveOneValue, HaveOneValueEach};

use crate::edges::BlockEdge;
use crate::stop::{EdgeStop, KeptForEdges};
use crate::targets::{block_named, expect_one_value, is_successor_at, place_of_hole};
use pliron_text_llvm_functions::FunctionReading;
use pliron_text_llvm_reader::BodyStatement;
use std::alloc::{AllocError, Global};

/// An entry of a phi.
#[doc(hidden)]
#[derive(Clone, Copy, Debug, Drop, PartialEq, Eq)]
pub struct PhiEntry {
    /// The number of the block before that it is for.
    pub block: usize,
    /// The number of the hole that has its value.
    pub value: usize,
}

// The entry whose value is in the hole of this number, and whose block is in the next one.
fn entry_at(reading: &FunctionReading, number: usize) -> Result<PhiEntry, EdgeStop>
    requires { number < 18446744073709551615 }
    ensures { IfOk result (λ entry. IsEntryAt reading.now number entry) }
{
    let holes = &reading.body.holes;
    let kinds = (
        is_successor_at(holes, number),
        is_successor_at(holes, number + 1),
    );
    match (kinds, block_named(reading, number + 1)) {
        ((false, true), Some(block)) => Ok(PhiEntry {
            block,
            value: number,
        }),
        _ => Err(EdgeStop::Keep(place_of_hole(reading, number), KeptForEdges::Entries)),
    }
}

/// Adds the entries of the phi to none, in the order of the text. Asks that there is no entry yet. Errors: its holes
/// are no values and blocks in turn; allocation failure. Cost: a search among the blocks for each.
#[tactic(auto, using(crate::proofs::EntryLemmas::entries_none, crate::proofs::EntryLemmas::entries_more, crate::proofs::EntryLemmas::entries_all))]
pub fn push_entries(
    reading: &FunctionReading,
    line: &BodyStatement,
    entries: &mut Vec<PhiEntry>,
) -> Result<(), EdgeStop>
    requires { entries.old.items ≡ [] }
    ensures { OnOk result (AreEntriesOf reading.now line.now entries.new.items) }
{
    let mut number = line.first_hole;
    while line.end_hole.saturating_sub(number) >= 2 {
        entries.push(entry_at(reading, number)?)?;
        number += 2;
    }
    if number < line.end_hole {
        return Err(EdgeStop::Keep(place_of_hole(reading, number), KeptForEdges::Entries));
    }
    Ok(())
}

/// Puts the entries in the order of their blocks. Errors: allocation failure. Cost: that of a sort.
pub fn sort_entries(entries: &mut Vec<PhiEntry>) -> Result<(), AllocError>
    ensures permutation { IsPermutation entries.old.items entries.new.items }
    ensures order { OnOk result (IsNonDecreasingBy (λ entry. entry.block) entries.new.items) }
{
    entries.sort_by_key(|entry| entry.block)?;
    Ok(())
}

/// Whether the entries are for the blocks that the edges come from, one for each. Cost: linear in them.
#[tactic(auto, using(crate::proofs::EntryLemmas::blocks_none, crate::proofs::EntryLemmas::blocks_more, crate::proofs::EntryLemmas::blocks_all))]
pub fn are_from(entries: &[PhiEntry], edges: &[BlockEdge]) -> bool
    ensures { result ≡ true → map (λ entry. entry.block) entries.now ≡ map (λ edge. edge.from) edges.now }
{
    if entries.len() != edges.len() {
        return false;
    }
    for i in 0..entries.len() {
        if entries[i].block != edges[i].from {
            return false;
        }
    }
    true
}

// That entries of one block have one value, if the two are such.
fn expect_agreement(
    text: &[u8],
    reading: &FunctionReading,
    first: PhiEntry,
    second: PhiEntry,
) -> Result<(), EdgeStop>
    ensures { OnOk result (HaveOneValue text.now reading.now first second) }
{
    if first.block == second.block {
        expect_one_value(text, reading, first.value, second.value)
    } else {
        Ok(())
    }
}

/// That entries of one block have one value. Asks that they are in the order of their blocks. Errors: they have two;
/// or constants of two texts. Cost: linear in them, and in the texts of constants.
#[tactic(auto, using(crate::proofs::EntryLemmas::agree_none, crate::proofs::EntryLemmas::agree_more, crate::proofs::EntryLemmas::values_all))]
pub fn expect_values(
    text: &[u8],
    reading: &FunctionReading,
    entries: &[PhiEntry],
) -> Result<(), EdgeStop>
    requires { IsNonDecreasingBy (λ entry. entry.block) entries.now }
    ensures { OnOk result (HaveOneValueEach text.now reading.now entries.now) }
{
    for i in 1..entries.len() {
        expect_agreement(text, reading, entries[i - 1], entries[i])?;
    }
    Ok(())
}
