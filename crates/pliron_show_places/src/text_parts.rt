//! What a text of the notation writes: where its operations, the heads of its blocks and the names of its values are.
use pliron_text_positions::LineAndColumn;
use std::alloc::{AllocError, Global};

/// A part of a text.
#[derive(Clone, Copy, Debug, Drop, PartialEq, Eq)]
pub struct TextPart {
    /// How many bytes are before it.
    pub start: usize,
    pub len: usize,
    /// Its line and column, counted from 1, columns by bytes.
    pub line: usize,
    pub column: usize,
}

impl TextPart {
    /// Its bytes. Cost: constant.
    pub fn of<'t>(&self, text: &'t [u8]) -> &'t [u8] {
        let start = self.start.min(text.len());
        let rest = &text[start..];
        &rest[..self.len.min(rest.len())]
    }

    /// The line and column right behind it. Cost: linear in it.
    pub fn end(&self, text: &[u8]) -> LineAndColumn {
        let mut end = LineAndColumn {
            line: self.line,
            column: self.column,
        };
        for byte in self.of(text) {
            if *byte == b'\n' {
                end.line = end.line.saturating_add(1);
                end.column = 1;
            } else {
                end.column = end.column.saturating_add(1);
            }
        }
        end
    }
}

/// A value, where a text names it first.
#[derive(Clone, Copy, Debug, Drop, PartialEq, Eq)]
pub struct ValueName {
    pub part: TextPart,
    /// The head of its block, by number, where it is an argument.
    pub block: Option<usize>,
}

/// The parts of a readable text, each kind in the order of the text. `read_text` makes operations, blocks and values in
/// that order, so the number of a part is the handle of what the part names.
#[derive(Drop)]
pub struct TextParts {
    /// The operations, up to their regions.
    pub operations: Vec<TextPart>,
    /// The heads of blocks, without the colon.
    pub blocks: Vec<TextPart>,
    pub values: Vec<ValueName>,
}

// Whether the byte may be in a name.
fn is_name_byte(byte: u8) -> bool {
    byte.is_ascii_alphanumeric() || byte == b'_'
}

/// A walk over a text.
#[derive(Clone, Copy)]
struct TextScan {
    line: usize,
    /// How many bytes are before the line.
    line_start: usize,
    /// The part that is open, and its last byte so far that is no blank.
    open: Option<TextPart>,
}

impl TextScan {
    fn new() -> Self {
        TextScan {
            line: 1,
            line_start: 0,
            open: None,
        }
    }

    // Takes in the byte after so many.
    fn take(&mut self, byte: u8, at: usize) {
        match byte {
            b'\n' => {
                self.line = self.line.saturating_add(1);
                self.line_start = at.saturating_add(1);
            }
            b' ' | b'\t' | b'\r' => {}
            _ => self.grow(at),
        }
    }

    // The byte after so many belongs to the open part, or begins one.
    fn grow(&mut self, at: usize) {
        let part = match self.open {
            Some(part) => part,
            None => TextPart {
                start: at,
                len: 0,
                line: self.line,
                column: at.saturating_sub(self.line_start).saturating_add(1),
            },
        };
        self.open = Some(TextPart {
            len: at.saturating_sub(part.start).saturating_add(1),
            ..part
        });
    }

    // Ends the open part.
    fn end(&mut self) -> Option<TextPart> {
        let part = self.open;
        self.open = None;
        part
    }
}

impl TextParts {
    // Takes in an operation: the names before its equals sign are its results.
    fn add_operation(&mut self, text: &[u8], part: TextPart) -> Result<(), AllocError> {
        self.operations.push(part)?;
        let bytes = part.of(text);
        match bytes.iter().position(|byte| *byte == b'=') {
            Some(end) => self.add_names(&bytes[..end], part, None),
            None => Ok(()),
        }
    }

    // Takes in the head of a block: the names in its brackets are its arguments.
    fn add_block(&mut self, text: &[u8], part: TextPart) -> Result<(), AllocError> {
        let number = self.blocks.len();
        self.blocks.push(part)?;
        let bytes = part.of(text);
        let Some(opening) = bytes.iter().position(|byte| *byte == b'(') else {
            return Ok(());
        };
        let after = TextPart {
            start: part.start.saturating_add(opening),
            len: part.len.saturating_sub(opening),
            line: part.line,
            column: part.column.saturating_add(opening),
        };
        self.add_names(&bytes[opening..], after, Some(number))
    }

    // Takes in the names in these bytes, which begin where the part does.
    fn add_names(
        &mut self,
        bytes: &[u8],
        part: TextPart,
        block: Option<usize>,
    ) -> Result<(), AllocError> {
        let mut walk = TextScan {
            line: part.line,
            line_start: part.start.saturating_add(1).saturating_sub(part.column),
            open: None,
        };
        for i in 0..bytes.len() {
            let byte = bytes[i];
            if is_name_byte(byte) {
                walk.grow(part.start.saturating_add(i));
            } else {
                self.add_value(walk.end(), block)?;
                walk.take_blank(byte, part.start.saturating_add(i));
            }
        }
        self.add_value(walk.end(), block)
    }

    fn add_value(
        &mut self,
        part: Option<TextPart>,
        block: Option<usize>,
    ) -> Result<(), AllocError> {
        match part {
            Some(part) => Ok(self.values.push(ValueName { part, block })?),
            None => Ok(()),
        }
    }

    /// Where the operation with this number is, if the text has it. Cost: constant.
    pub fn operation_part(&self, number: u64) -> Option<TextPart> {
        self.operations.get(usize::try_from(number).ok()?).copied()
    }

    /// The words of the operation with this number, if the text has it. Cost: constant.
    pub fn operation<'t>(&self, text: &'t [u8], number: u64) -> Option<&'t [u8]> {
        Some(self.operation_part(number)?.of(text))
    }

    /// The name of the value with this number, if the text has it. Cost: constant.
    pub fn value(&self, number: u64) -> Option<ValueName> {
        self.values.get(usize::try_from(number).ok()?).copied()
    }

    /// Where the head of the block with this number is, if the text has it. Cost: constant.
    pub fn block_part(&self, number: u64) -> Option<TextPart> {
        self.blocks.get(usize::try_from(number).ok()?).copied()
    }

    /// The head of the block with this number, if the text has it. Cost: constant.
    pub fn block<'t>(&self, text: &'t [u8], number: u64) -> Option<&'t [u8]> {
        Some(self.block_part(number)?.of(text))
    }
}

impl TextScan {
    // Takes in a byte that belongs to no part.
    fn take_blank(&mut self, byte: u8, at: usize) {
        if byte == b'\n' {
            self.line = self.line.saturating_add(1);
            self.line_start = at.saturating_add(1);
        }
    }
}

/// The parts of a text. Asks that the notation has it. Errors: allocation failure. Cost: linear in the text.
pub fn parts_of(alloc: Global, text: &[u8]) -> Result<TextParts, AllocError> {
    let mut words = TextParts {
        operations: Vec::new(alloc),
        blocks: Vec::new(alloc),
        values: Vec::new(alloc),
    };
    let mut walk = TextScan::new();
    for at in 0..text.len() {
        match text[at] {
            b';' | b'{' | b'}' => {
                if let Some(part) = walk.end() {
                    words.add_operation(text, part)?;
                }
            }
            b':' => {
                if let Some(part) = walk.end() {
                    words.add_block(text, part)?;
                }
            }
            byte => walk.take(byte, at),
        }
    }
    Ok(words)
}

/// Adds the bytes with each run of blanks as one blank, without those around them. Errors: allocation failure. Cost:
/// linear in them.
pub fn push_on_one_line(line: &mut String, bytes: &[u8]) -> Result<(), AllocError> {
    let mut gap = "";
    let mut next_gap = "";
    for byte in bytes {
        if byte.is_ascii_graphic() {
            line.push_str(gap)?;
            line.push(char::from(*byte))?;
            gap = "";
            next_gap = " ";
        } else {
            gap = next_gap;
        }
    }
    Ok(())
}

/// The names in the brackets behind the successor at this index, as an operation writes them. Cost: linear in it.
pub fn forwarded_names(operation: &[u8], index: usize) -> Option<&[u8]> {
    let mut rest = operation;
    for _ in 0..index {
        let opening = rest.iter().position(|byte| *byte == b'(')?;
        rest = &rest[opening + 1..];
    }
    let opening = rest.iter().position(|byte| *byte == b'(')?;
    let inside = &rest[opening + 1..];
    let closing = inside.iter().position(|byte| *byte == b')')?;
    Some(&inside[..closing])
}
