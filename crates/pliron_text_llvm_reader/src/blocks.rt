//! Blocks of a body, by what its lines are for.
ghost use Rattle.std.specs.Prelude.{◌≡◌, ◌≤◌, [], length, drop, take_while, slice_get, IfOk, IfErr, OnOk};
ghost use Rattle.pliron_text_llvm_reader.specs.Blocks.{is_plain_line, is_end, open_len, IsBlockAt, IsOpenAt, AreBlocks, IsBlockFault};
ghost use Rattle.pliron_text_llvm_reader.specs.declared.blocks.BlockFault.TheVariants.{NoMemory};

use std::alloc::{AllocError, AllocFailed};

/// What a line of a body is for its block.
#[doc(hidden)]
#[derive(Clone, Copy, Debug, Drop, PartialEq, Eq)]
pub enum LineRole {
    /// The label of the block.
    Label,
    /// A statement that doesn't end the block, or a debug record.
    Plain,
    /// A statement that ends the block.
    Terminator,
}

/// Lines of a block: from the first up to the end, which is not in it.
#[doc(hidden)]
#[derive(Clone, Copy, Debug, Drop, PartialEq, Eq)]
pub struct BlockLines {
    pub start: usize,
    pub end: usize,
}

/// Why lines are no blocks.
#[doc(hidden)]
#[derive(Clone, Copy, Debug, Drop, PartialEq, Eq)]
pub enum BlockFault {
    /// There is no line.
    NoBlock,
    /// At this line, or behind the last, a statement was expected that ends the block.
    NoTerminator(usize),
    NoMemory,
}

/// A failed allocation is reported as `NoMemory`.
impl From<AllocError> for BlockFault {
    ghost from_gives = { λ _ e. e ≡ NoMemory };

    fn from(_refused: AllocError) -> BlockFault {
        BlockFault::NoMemory
    }
}

/// A failed growth of a collection is reported as `NoMemory`, and the value that was not stored is dropped.
impl<T: Drop> From<AllocFailed<T>> for BlockFault {
    ghost from_gives = { λ _ e. e ≡ NoMemory };

    fn from(_refused: AllocFailed<T>) -> BlockFault {
        BlockFault::NoMemory
    }
}

// Whether the line neither begins nor ends a block.
fn is_plain(role: LineRole) -> bool
    ensures { result ≡ is_plain_line role }
{
    matches!(role, LineRole::Plain)
}

// How many plain lines come first.
fn plain_len(roles: &[LineRole]) -> usize
    ensures exact { result ≡ length (take_while is_plain_line roles.now) }
    ensures within { result ≤ length roles.now }
{
    roles.iter().take_while(|role| is_plain(**role)).count()
}

// How many lines are before the statement that ends the first block: a label or none, and plain lines.
fn open_len(roles: &[LineRole]) -> usize
    ensures exact { result ≡ open_len roles.now }
    ensures within { result ≤ length roles.now }
{
    match roles {
        [LineRole::Label, rest @ ..] => 1 + plain_len(rest),
        _ => plain_len(roles),
    }
}

// Whether a line is there that ends a block.
fn is_end(role: Option<LineRole>) -> bool
    ensures { result ≡ is_end role }
{
    matches!(role, Some(LineRole::Terminator))
}

// What this line is for its block, if there is one.
fn role_at(roles: &[LineRole], line: usize) -> Option<LineRole>
    ensures { result ≡ slice_get roles.now line }
{
    roles.get(line).copied()
}

// How many lines the first block has. Errors: no statement ends it; one was expected at this line.
#[tactic(auto, using(crate::proofs::BlockLemmas::block_ended))]
fn block_len(roles: &[LineRole]) -> Result<usize, usize>
    ensures block { IfOk result (λ len. IsBlockAt roles.now len) }
    ensures is_open { IfErr result (λ line. IsOpenAt roles.now line) }
{
    let last = open_len(roles);
    if is_end(role_at(roles, last)) {
        Ok(last + 1)
    } else {
        Err(last)
    }
}

// The lines from this one on.
fn lines_from(roles: &[LineRole], start: usize) -> &[LineRole]
    requires { start ≤ length roles.now }
    ensures { result.now ≡ drop start roles.now }
{
    &roles[start..]
}

/// Adds the blocks of lines to none: they follow each other, and are all of the lines; a label or none is first in
/// each, a statement that ends it is last, and between them are plain lines. Asks that there is no block yet.
///
/// Errors: there is no line; a block isn't ended, at the line where another one begins, or behind the last line;
/// allocation failure. Cost: linear in the lines.
#[doc(hidden)]
#[tactic(auto, using(crate::proofs::BlockLemmas::block_added, crate::proofs::BlockLemmas::blocks_none, crate::proofs::BlockLemmas::blocks_end))]
pub fn split_blocks(roles: &[LineRole], blocks: &mut Vec<BlockLines>) -> Result<(), BlockFault>
    requires { blocks.old.items ≡ [] }
    ensures blocks { OnOk result (AreBlocks roles.now 0 (length roles.now) blocks.new.items) }
    ensures fault { IfErr result (λ fault. IsBlockFault roles.now fault) }
{
    if roles.is_empty() {
        return Err(BlockFault::NoBlock);
    }
    let mut start = 0;
    while start < roles.len() {
        let len = match block_len(lines_from(roles, start)) {
            Ok(len) => len,
            Err(line) => return Err(BlockFault::NoTerminator(start + line)),
        };
        blocks.push(BlockLines {
            start,
            end: start + len,
        })?;
        start += len;
    }
    Ok(())
}
