//! Which block a hole names, and which value.
ghost use Rattle.std.specs.Prelude.{◌≡◌, true, slice_get, IfSome, OnOk};
ghost use Rattle.std.specs.Option.{option_copied};
ghost use Rattle.pliron_text_llvm_edges.specs.Successors.{target_at, line_begun, line_named, BeginsAt, NamesBlock, is_successor_at};
ghost use Rattle.pliron_text_llvm_edges.specs.Phis.{bytes_in_hole, value_at};

use crate::stop::{EdgeRefusal, EdgeStop, KeptForEdges, refusal_at};
use pliron_text_llvm_functions::FunctionReading;
use pliron_text_llvm_names::{DefinitionKind, LocalDefinition, bytes_in};
use pliron_text_llvm_reader::BlockLines;
use pliron_text_llvm_syntax::{Hole, HoleKind};

/// The number of the definition that the hole names, if it names one. Cost: constant.
#[doc(hidden)]
pub fn target_at(reading: &FunctionReading, hole: usize) -> Option<usize>
    ensures { result ≡ target_at reading.now hole }
{
    match reading.targets.get(hole) {
        Some(target) => *target,
        None => None,
    }
}

// The line with which the block begins that is defined.
fn line_begun(definition: Option<&LocalDefinition>) -> Option<usize>
    ensures { result ≡ line_begun (option_copied definition.entry) }
{
    match definition {
        Some(definition) => match definition.what {
            DefinitionKind::Block(line) => Some(line),
            DefinitionKind::Argument(_) | DefinitionKind::Result(_) => None,
        },
        None => None,
    }
}

// The line with which the block begins that the hole names.
fn line_named(reading: &FunctionReading, hole: usize) -> Option<usize>
    ensures { result ≡ line_named reading.now hole }
{
    match target_at(reading, hole) {
        Some(number) => line_begun(reading.definitions.get(number)),
        None => None,
    }
}

// The number of the block that begins with the line.
fn block_at(blocks: &[BlockLines], line: usize) -> Option<usize>
    ensures { IfSome result (λ number. BeginsAt blocks.now number line) }
{
    let number = match blocks.binary_search_by_key(&line, |block| block.start) {
        Ok(number) => number,
        Err(number) => number,
    };
    match blocks.get(number) {
        Some(block) if block.start == line => Some(number),
        _ => None,
    }
}

/// The number of the block that the hole names. Cost: a search among the blocks.
pub fn block_named(reading: &FunctionReading, hole: usize) -> Option<usize>
    ensures { IfSome result (λ number. NamesBlock reading.now hole number) }
{
    match line_named(reading, hole) {
        Some(line) => block_at(&reading.body.blocks, line),
        None => None,
    }
}

/// Whether a successor is in the hole. Cost: constant.
#[doc(hidden)]
pub fn is_successor_at(holes: &[Hole], number: usize) -> bool
    ensures { result ≡ is_successor_at holes.now number }
{
    match holes.get(number) {
        Some(hole) => matches!(hole.kind, HoleKind::Successor),
        None => false,
    }
}

/// Where the hole is in the text. Cost: constant.
#[doc(hidden)]
pub fn place_of_hole(reading: &FunctionReading, hole: usize) -> usize {
    match reading.body.holes.get(hole) {
        Some(hole) => hole.span.start,
        None => 0,
    }
}

/// The bytes in the hole. Cost: constant.
#[doc(hidden)]
pub fn bytes_at<'t>(text: &'t [u8], holes: &[Hole], hole: usize) -> &'t [u8]
    ensures { result.now ≡ bytes_in_hole text.now (slice_get holes.now hole) }
{
    match holes.get(hole) {
        Some(hole) => bytes_in(text, hole.span),
        None => &[],
    }
}

// Whether the bytes are the same.
fn are_same(first: &[u8], second: &[u8]) -> bool
    ensures { result ≡ true → first.now ≡ second.now }
{
    first == second
}

/// That the holes have one value. Errors: they have two; or constants of two texts, which LLVM may take as one. Cost:
/// linear in the text of the first.
pub fn expect_one_value(
    text: &[u8],
    reading: &FunctionReading,
    first: usize,
    second: usize,
) -> Result<(), EdgeStop>
    ensures { OnOk result (value_at text.now reading.now first ≡ value_at text.now reading.now second) }
{
    let holes = &reading.body.holes;
    match (target_at(reading, first), target_at(reading, second)) {
        (Some(one), Some(other)) if one == other => Ok(()),
        (None, None) if are_same(bytes_at(text, holes, first), bytes_at(text, holes, second)) => {
            Ok(())
        }
        (None, None) => Err(EdgeStop::Keep(place_of_hole(reading, second), KeptForEdges::TwoTexts)),
        _ => Err(refusal_at(place_of_hole(reading, second), EdgeRefusal::OneValue)),
    }
}
