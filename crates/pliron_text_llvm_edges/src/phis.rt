//! Phis of blocks.
ghost use Rattle.std.specs.Prelude.{◌≡◌, ◌++◌, ◌&&◌, true, false, [], Some, map, slice_get, IfOk, IfNone, IfSome, OnOk};
ghost use Rattle.std.specs.List.{All};
ghost use Rattle.std.specs.List.Sorted.{IsNonDecreasingBy};
ghost use Rattle.pliron_text_llvm_reader.specs.declared.body.BodyLine.TheVariants.{Statement};
ghost use Rattle.pliron_text_llvm_edges.specs.Numbers.{in_block, numbers_passing};
ghost use Rattle.pliron_text_llvm_edges.specs.Phis.{is_phi, is_phi_at, is_head_at, HasPhisFirst, phis_of_block, place_of_phi};
ghost use Rattle.pliron_text_llvm_edges.specs.Phis.{edges_into, HasEntries, HaveOneValueEach, FitsEdges, FitsIncoming, AreFunctionPhis};

use crate::edges::BlockEdge;
use crate::entries::{PhiEntry, are_from, expect_values, push_entries, sort_entries};
use crate::stop::{EdgeRefusal, EdgeStop, KeptForEdges, refusal_at};
use pliron_text_llvm_functions::FunctionReading;
use pliron_text_llvm_reader::{BlockLines, BodyLine, BodyStatement, StatementLayout};
use std::alloc::Global;

/// Where a phi is.
#[doc(hidden)]
#[derive(Clone, Copy, Debug, Drop, PartialEq, Eq)]
pub struct PhiPlace {
    /// The number of its block.
    pub block: usize,
    /// The number of its line.
    pub line: usize,
}

/// A phi of a block.
#[doc(hidden)]
#[derive(Debug, Drop)]
pub struct BlockPhi {
    pub place: PhiPlace,
    /// Its entries, in the order of the edges that lead to the block.
    pub entries: Vec<PhiEntry>,
}

/// A block and its number.
#[derive(Clone, Copy)]
pub struct NumberedBlock {
    pub number: usize,
    pub lines: BlockLines,
}

// Whether the line is a phi.
fn is_phi(line: &BodyLine) -> bool
    ensures { result ≡ is_phi (Some line.now) }
{
    match line {
        BodyLine::Label(_) => false,
        BodyLine::Statement(line) => matches!(line.statement.row.layout, StatementLayout::Phi),
    }
}

// Whether the line of this number is a phi.
fn is_phi_at(lines: &[BodyLine], number: usize) -> bool
    ensures { result ≡ is_phi_at lines.now number }
{
    match lines.get(number) {
        Some(line) => is_phi(line),
        None => false,
    }
}

// Whether a phi may stand behind the line of this number.
fn is_head_at(lines: &[BodyLine], number: usize) -> bool
    ensures { result ≡ is_head_at lines.now number }
{
    match lines.get(number) {
        Some(line) => matches!(line, BodyLine::Label(_)) || is_phi(line),
        None => false,
    }
}

// Whether the line is a phi where none may stand.
fn is_misplaced(lines: &[BodyLine], at_head: bool, line: usize) -> bool
    ensures { result ≡ false → is_phi_at lines.now line ≡ true → at_head ≡ true }
{
    if at_head {
        false
    } else {
        is_phi_at(lines, line)
    }
}

// Whether a phi may stand behind the line.
fn at_head_behind(lines: &[BodyLine], at_head: bool, line: usize) -> bool
    ensures { result ≡ (at_head && is_head_at lines.now line) }
{
    at_head && is_head_at(lines, line)
}

// The first phi of the block that doesn't stand at its beginning.
#[tactic(auto, using(crate::proofs::PhiLemmas::first_more, crate::proofs::PhiLemmas::first_all))]
fn phi_behind(reading: &FunctionReading, block: BlockLines) -> Option<usize>
    ensures { IfNone result (HasPhisFirst reading.now.body block) }
{
    let lines = &reading.body.lines;
    let mut at_head = true;
    for line in block.start..block.end {
        if is_misplaced(lines, at_head, line) {
            return Some(line);
        }
        at_head = at_head_behind(lines, at_head, line);
    }
    None
}

// Where the line is in the text.
fn place_of_line(reading: &FunctionReading, line: usize) -> usize {
    match reading.body.lines.get(line) {
        Some(line) => line.span().start,
        None => 0,
    }
}

// That the phis of the block are at its beginning. Errors: one isn't.
fn expect_phis_first(reading: &FunctionReading, block: BlockLines) -> Result<(), EdgeStop>
    ensures { OnOk result (HasPhisFirst reading.now.body block) }
{
    match phi_behind(reading, block) {
        Some(line) => Err(refusal_at(place_of_line(reading, line), EdgeRefusal::PhiBehind)),
        None => Ok(()),
    }
}

// The statement that is the line of this number, if it is one.
fn statement_at(lines: &[BodyLine], line: usize) -> Option<&BodyStatement>
    ensures { IfSome result (λ statement. slice_get lines.now line ≡ Some (Statement statement.now)) }
{
    match lines.get(line) {
        Some(BodyLine::Statement(statement)) => Some(statement),
        Some(BodyLine::Label(_)) | None => None,
    }
}

// The edges that lead to the block of this number.
#[tactic(auto, using(crate::proofs::PhiLemmas::into_some, crate::proofs::PhiLemmas::into_none))]
fn edges_into(incoming: &[Vec<BlockEdge>], number: usize) -> &[BlockEdge]
    ensures { result.now ≡ edges_into (map (λ list. list.items) incoming.now) number }
{
    match incoming.get(number) {
        Some(list) => list,
        None => &[],
    }
}

// The entries of the statement, in the order of their blocks.
#[tactic(auto, using(crate::proofs::EntryLemmas::entries_sorted))]
fn read_entries(
    alloc: Global,
    reading: &FunctionReading,
    statement: &BodyStatement,
) -> Result<Vec<PhiEntry>, EdgeStop>
    ensures entries { IfOk result (λ entries. HasEntries reading.now statement.now entries.items) }
    ensures order { IfOk result (λ entries. IsNonDecreasingBy (λ entry. entry.block) entries.items) }
{
    let mut entries = Vec::new(alloc);
    push_entries(reading, statement, &mut entries)?;
    sort_entries(&mut entries)?;
    Ok(entries)
}

// The entries of the statement in the order of these edges: one for each of them, and one value for each block.
fn fitting_entries(
    alloc: Global,
    text: &[u8],
    reading: &FunctionReading,
    incoming: &[BlockEdge],
    statement: &BodyStatement,
) -> Result<Vec<PhiEntry>, EdgeStop>
    ensures entries { IfOk result (λ entries. HasEntries reading.now statement.now entries.items) }
    ensures blocks { IfOk result (λ entries.
        map (λ entry. entry.block) entries.items ≡ map (λ edge. edge.from) incoming.now) }
    ensures values { IfOk result (λ entries. HaveOneValueEach text.now reading.now entries.items) }
{
    let entries = read_entries(alloc, reading, statement)?;
    if !are_from(&entries, incoming) {
        return Err(refusal_at(statement.statement.opcode.start, EdgeRefusal::EachEdge));
    }
    expect_values(text, reading, &entries)?;
    Ok(entries)
}

// Reads the phi of this place, to whose block these edges lead: its entries in the order of the edges.
#[tactic(auto, using(crate::proofs::PhiLemmas::phi_fits))]
fn read_phi(
    alloc: Global,
    text: &[u8],
    reading: &FunctionReading,
    incoming: &[BlockEdge],
    place: PhiPlace,
) -> Result<BlockPhi, EdgeStop>
    ensures place { IfOk result (λ phi. phi.place ≡ place) }
    ensures fits { IfOk result (λ phi. FitsEdges text.now reading.now incoming.now phi) }
{
    let Some(statement) = statement_at(&reading.body.lines, place.line) else {
        return Err(EdgeStop::Keep(0, KeptForEdges::Entries));
    };
    let entries = fitting_entries(alloc, text, reading, incoming, statement)?;
    Ok(BlockPhi { place, entries })
}

// Adds the phi of this place, if one is there.
#[tactic(auto, using(crate::proofs::PhiLemmas::phi_pushed, crate::proofs::PhiLemmas::phis_fit, crate::proofs::PhiLemmas::phi_unpushed))]
fn push_phi(
    alloc: Global,
    text: &[u8],
    reading: &FunctionReading,
    incoming: &[Vec<BlockEdge>],
    place: PhiPlace,
    phis: &mut Vec<BlockPhi>,
) -> Result<(), EdgeStop>
    requires { All (FitsIncoming text.now reading.now (map (λ list. list.items) incoming.now)) phis.old.items }
    ensures places { OnOk result (map place_of_phi phis.new.items ≡ map place_of_phi phis.old.items
        ++ in_block place.block (numbers_passing (is_phi_at reading.now.body.lines.items) place.line 1)) }
    ensures fit { OnOk result (All (FitsIncoming text.now reading.now (map (λ list. list.items) incoming.now))
        phis.new.items) }
{
    if is_phi_at(&reading.body.lines, place.line) {
        let edges = edges_into(incoming, place.block);
        let phi = read_phi(alloc, text, reading, edges, place)?;
        phis.push(phi)?;
    }
    Ok(())
}

// Adds the phis of the block, wherever they stand in it.
#[tactic(auto, using(crate::proofs::NumberLemmas::passing_more, crate::proofs::NumberLemmas::passing_all))]
fn push_phis_of_block(
    alloc: Global,
    text: &[u8],
    reading: &FunctionReading,
    incoming: &[Vec<BlockEdge>],
    block: NumberedBlock,
    phis: &mut Vec<BlockPhi>,
) -> Result<(), EdgeStop>
    requires { All (FitsIncoming text.now reading.now (map (λ list. list.items) incoming.now)) phis.old.items }
    ensures places { OnOk result (map place_of_phi phis.new.items ≡ map place_of_phi phis.old.items
        ++ in_block block.number (phis_of_block reading.now.body block.lines)) }
    ensures fit { OnOk result (All (FitsIncoming text.now reading.now (map (λ list. list.items) incoming.now))
        phis.new.items) }
{
    for line in block.lines.start..block.lines.end {
        let place = PhiPlace {
            block: block.number,
            line,
        };
        push_phi(alloc, text, reading, incoming, place, phis)?;
    }
    Ok(())
}

/// Adds the phis of a function to none, in the order of the text.
///
/// Asks that there is no phi yet. Errors: a phi isn't at the beginning of its block; its entries aren't one for each
/// edge to its block, or two of one block have two values; its entries aren't read; allocation failure. Cost: linear in
/// the lines, and a sort of the entries of each phi, with a search among the blocks for each.
#[doc(hidden)]
#[tactic(auto, using(crate::proofs::NumberLemmas::blocks_more, crate::proofs::NumberLemmas::blocks_all, crate::proofs::PhiLemmas::phis_begun, crate::proofs::PhiLemmas::phis_none, crate::proofs::PhiLemmas::heads_none, crate::proofs::PhiLemmas::heads_more, crate::proofs::PhiLemmas::heads_all))]
pub fn push_phis(
    alloc: Global,
    text: &[u8],
    reading: &FunctionReading,
    incoming: &[Vec<BlockEdge>],
    phis: &mut Vec<BlockPhi>,
) -> Result<(), EdgeStop>
    requires { phis.old.items ≡ [] }
    ensures { OnOk result (AreFunctionPhis text.now reading.now (map (λ list. list.items) incoming.now)
        phis.new.items) }
{
    let mut number = 0;
    for block in &reading.body.blocks {
        expect_phis_first(reading, *block)?;
        let numbered = NumberedBlock {
            number,
            lines: *block,
        };
        push_phis_of_block(alloc, text, reading, incoming, numbered, phis)?;
        number += 1;
    }
    Ok(())
}
