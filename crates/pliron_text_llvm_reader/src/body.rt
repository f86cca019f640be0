//! Bodies of functions: statements with their operands and successors, and the blocks that they are in.
ghost use Rattle.std.specs.Prelude.{◌≡◌, ◌≤◌, ◌++◌, length, map, take, IfOk, OnOk};
ghost use Rattle.pliron_text_llvm_syntax.specs.Lines.{span_of_line, AreLines, AreGaps};
ghost use Rattle.pliron_text_llvm_syntax.specs.declared.fault.LlvmFault.TheVariants.{NoMemory};
ghost use Rattle.pliron_text_llvm_reader.specs.declared.body.BodyStop.TheVariants.{Broken};
ghost use Rattle.pliron_text_llvm_reader.specs.Blocks.{AreBlocks};
ghost use Rattle.pliron_text_llvm_reader.specs.Bodies.{role_of_line, span_of_body_line, line_of, stop_at, IsStatementLine, AddsRow, AddsLine, AreRows};

use crate::blocks::{BlockFault, BlockLines, LineRole, split_blocks};
use crate::statement::{Statement, StatementRoom, read_statement};
use crate::stop::{KeptReason, StatementStop};
use pliron_text_llvm_syntax::{ByteSpan, Hole, LineText, LlvmFault, split_lines};
use std::alloc::{AllocError, AllocFailed, Global};

/// A statement of a body.
#[doc(hidden)]
#[derive(Clone, Copy, Debug, Drop, PartialEq, Eq)]
pub struct BodyStatement {
    pub span: ByteSpan,
    pub statement: Statement,
    /// The number of its first hole.
    pub first_hole: usize,
    /// The number behind that of its last hole.
    pub end_hole: usize,
}

/// A line of a body.
#[doc(hidden)]
#[derive(Clone, Copy, Debug, Drop, PartialEq, Eq)]
pub enum BodyLine {
    /// The label of a block, with its `:`.
    Label(ByteSpan),
    Statement(BodyStatement),
}

/// A body that was read.
#[doc(hidden)]
#[derive(Debug, Drop)]
pub struct FunctionBody {
    pub lines: Vec<BodyLine>,
    /// The operands and successors of all statements, in their order.
    pub holes: Vec<Hole>,
    /// The blocks, by the numbers of their lines.
    pub blocks: Vec<BlockLines>,
}

/// What stops reading a body.
#[doc(hidden)]
#[derive(Clone, Copy, Debug, Drop, PartialEq, Eq)]
pub enum BodyStop {
    /// The statement at this byte isn't in the table.
    Kept(usize, KeptReason),
    /// The text is broken, or memory lacks.
    Broken(LlvmFault),
    /// Before this byte a block was expected.
    NoBlock(usize),
    /// At this byte a statement was expected that ends the block.
    NoTerminator(usize),
}

/// A fault of the text is reported as such.
impl From<LlvmFault> for BodyStop {
    ghost from_gives = { λ fault e. e ≡ Broken fault };

    fn from(fault: LlvmFault) -> BodyStop {
        BodyStop::Broken(fault)
    }
}

/// A failed allocation is reported as `NoMemory`.
impl From<AllocError> for BodyStop {
    ghost from_gives = { λ _ e. e ≡ Broken NoMemory };

    fn from(_refused: AllocError) -> BodyStop {
        BodyStop::Broken(LlvmFault::NoMemory)
    }
}

/// A failed growth of a collection is reported as `NoMemory`, and the value that was not stored is dropped.
impl<T: Drop> From<AllocFailed<T>> for BodyStop {
    ghost from_gives = { λ _ e. e ≡ Broken NoMemory };

    fn from(_refused: AllocFailed<T>) -> BodyStop {
        BodyStop::Broken(LlvmFault::NoMemory)
    }
}

/// Room for one statement, which is used again for each.
#[derive(Drop)]
struct LineRoom {
    statement: StatementRoom,
    holes: Vec<Hole>,
}

impl BodyLine {
    /// Where it is in the text. Cost: constant.
    pub fn span(&self) -> ByteSpan
        ensures { result ≡ span_of_body_line self.now }
    {
        match self {
            BodyLine::Label(span) => *span,
            BodyLine::Statement(line) => line.span,
        }
    }

    /// What it is for its block. Cost: constant.
    pub fn role(&self) -> LineRole
        ensures { result ≡ role_of_line self.now }
    {
        match self {
            BodyLine::Label(_) => LineRole::Label,
            BodyLine::Statement(line) if line.statement.row.is_terminator => LineRole::Terminator,
            BodyLine::Statement(_) => LineRole::Plain,
        }
    }
}

// What stops reading the statement at this byte.
fn stop_at(place: usize, stop: StatementStop) -> BodyStop
    ensures { result ≡ stop_at place stop }
{
    match stop {
        StatementStop::Kept(reason) => BodyStop::Kept(place, reason),
        StatementStop::Broken(fault) => BodyStop::Broken(fault),
    }
}

// The text up to this byte.
fn text_before(text: &[u8], end: usize) -> &[u8]
    requires { end ≤ length text.now }
    ensures { result.now ≡ take end text.now }
{
    &text[..end]
}

// Reads the statement, and adds its operands and successors.
fn read_body_statement(
    text: &[u8],
    span: ByteSpan,
    room: &mut LineRoom,
    holes: &mut Vec<Hole>,
) -> Result<BodyStatement, BodyStop>
    requires ordered { span.start ≤ span.end }
    requires within { span.end ≤ length text.now }
    ensures statement { IfOk result (λ line. IsStatementLine text.now span line) }
    ensures row { IfOk result (λ line. AddsRow text.now line holes.old.items holes.new.items) }
{
    let before = text_before(text, span.end);
    let statement = match read_statement(before, span.start, &mut room.statement, &mut room.holes) {
        Ok(statement) => statement,
        Err(stop) => return Err(stop_at(span.start, stop)),
    };
    let first_hole = holes.len();
    holes.extend_from_slice(&room.holes)?;
    Ok(BodyStatement {
        span,
        statement,
        first_hole,
        end_hole: holes.len(),
    })
}

// Reads the line, and adds the operands and successors of its statement.
fn read_line(
    text: &[u8],
    line: LineText,
    room: &mut LineRoom,
    holes: &mut Vec<Hole>,
) -> Result<BodyLine, BodyStop>
    requires ordered { (span_of_line line).start ≤ (span_of_line line).end }
    requires within { (span_of_line line).end ≤ length text.now }
    ensures line { IfOk result (λ read. line_of read ≡ line) }
    ensures adds { IfOk result (λ read. AddsLine text.now read holes.old.items holes.new.items) }
{
    match line {
        LineText::Label(span) => Ok(BodyLine::Label(span)),
        LineText::Statement(span) => {
            let statement = read_body_statement(text, span, room, holes)?;
            Ok(BodyLine::Statement(statement))
        }
    }
}

// Reads the lines, and adds them and the holes of their statements.
#[tactic(auto, using(crate::proofs::BodyLemmas::line_ordered, crate::proofs::BodyLemmas::line_within, crate::proofs::BodyLemmas::lines_read, crate::proofs::BodyLemmas::rows_grown))]
fn read_lines(
    text: &[u8],
    lines: &[LineText],
    room: &mut LineRoom,
    body: &mut FunctionBody,
) -> Result<(), BodyStop>
    requires lines { AreLines 0 (length text.now) lines.now }
    requires rows { AreRows text.now body.old.lines.items body.old.holes.items }
    ensures rows { OnOk result (AreRows text.now body.new.lines.items body.new.holes.items) }
    ensures lines { OnOk result (map line_of body.new.lines.items ≡ map line_of body.old.lines.items ++ lines.now) }
    ensures blocks { body.new.blocks ≡ body.old.blocks }
{
    for line in lines {
        let read = read_line(text, *line, room, &mut body.holes)?;
        body.lines.push(read)?;
    }
    Ok(())
}

// What the lines are for their blocks.
fn roles_of(alloc: Global, lines: &[BodyLine]) -> Result<Vec<LineRole>, AllocError>
    ensures { IfOk result (λ roles. roles.items ≡ map role_of_line lines.now) }
{
    let mut roles = Vec::with_capacity(alloc, lines.len())?;
    for line in lines {
        roles.push(line.role())?;
    }
    Ok(roles)
}

// What stops reading the lines of a body that ends at this byte.
fn block_stop(lines: &[BodyLine], end: usize, fault: BlockFault) -> BodyStop {
    match fault {
        BlockFault::NoBlock => BodyStop::NoBlock(end),
        BlockFault::NoTerminator(line) => {
            BodyStop::NoTerminator(lines.get(line).map_or(end, |line| line.span().start))
        }
        BlockFault::NoMemory => BodyStop::Broken(LlvmFault::NoMemory),
    }
}

/// Reads what is between the brackets of a body: its lines, with the operands and successors of its statements, and its
/// blocks, which are the lines. Outside the lines are only blanks and comments.
///
/// Asks that it is in the text. Errors: a statement that isn't in the table, and so keeps its function as it is written;
/// a token or a bracket is broken; there is no block, or a block without an end; allocation failure. Cost: linear in it.
#[doc(hidden)]
#[tactic(auto, using(crate::proofs::BodyLemmas::lines_lower, crate::proofs::BodyLemmas::lines_within, crate::proofs::BodyLemmas::gaps_within, crate::proofs::BodyLemmas::blocks_read, crate::proofs::BodyLemmas::rows_none))]
pub fn read_body(alloc: Global, text: &[u8], inside: ByteSpan) -> Result<FunctionBody, BodyStop>
    requires ordered { inside.start ≤ inside.end }
    requires within { inside.end ≤ length text.now }
    ensures lines { IfOk result (λ body. AreLines inside.start inside.end (map line_of body.lines.items)) }
    ensures gaps { IfOk result (λ body.
        AreGaps (take inside.end text.now) inside.start inside.end (map line_of body.lines.items)) }
    ensures rows { IfOk result (λ body. AreRows (take inside.end text.now) body.lines.items body.holes.items) }
    ensures blocks { IfOk result (λ body.
        AreBlocks (map role_of_line body.lines.items) 0 (length body.lines.items) body.blocks.items) }
{
    let before = text_before(text, inside.end);
    let mut lines = Vec::new(alloc);
    split_lines(before, inside.start, &mut Vec::new(alloc), &mut lines)?;
    let mut body = FunctionBody {
        lines: Vec::with_capacity(alloc, lines.len())?,
        holes: Vec::new(alloc),
        blocks: Vec::new(alloc),
    };
    let mut room = LineRoom {
        statement: StatementRoom::new(alloc),
        holes: Vec::new(alloc),
    };
    read_lines(before, &lines, &mut room, &mut body)?;
    let roles = roles_of(alloc, &body.lines)?;
    match split_blocks(&roles, &mut body.blocks) {
        Ok(()) => Ok(body),
        Err(fault) => Err(block_stop(&body.lines, inside.end, fault)),
    }
}
