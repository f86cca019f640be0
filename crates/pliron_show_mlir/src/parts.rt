//! Where operations, heads of blocks and names of values are in a text in the generic form.
ghost use Rattle.std.specs.Prelude.{◌≤◌, ◌+◌, length, IfOk, IfSome};

use pliron_show_places::{TextPart, TextParts, TextRange, ValueName};
use pliron_text_mlir_reader::parse_text;
use pliron_text_mlir_syntax::{
    ByteRange, Expectation, Fault, ModuleSyntax, OperationSyntax, TextCursor,
};
use std::alloc::{AllocError, Global};

/// How far the ends of lines are counted.
#[derive(Clone, Copy)]
struct LineCount {
    /// How many bytes were counted, and how many of these are before the line.
    bytes: usize,
    line_start: usize,
    line: usize,
}

/// A walk over a text that was read.
#[derive(Drop)]
struct PartsWalk<'t> {
    alloc: Global,
    cursor: TextCursor<'t>,
    lines: LineCount,
    parts: TextParts,
    /// By the numbers of operations: where they end; and those whose regions are open.
    ends: Vec<usize>,
    open: Vec<usize>,
}

// How many values share a name, as digits behind it say.
fn count_of(digits: &[u8]) -> usize {
    std::str::from_utf8(digits)
        .ok()
        .and_then(|digits| digits.parse::<usize>().ok())
        .unwrap_or(0)
}

impl<'t> PartsWalk<'t> {
    fn new(alloc: Global, text: &'t [u8]) -> Self {
        PartsWalk {
            alloc,
            cursor: TextCursor::new(text),
            lines: LineCount {
                bytes: 0,
                line_start: 0,
                line: 1,
            },
            parts: TextParts {
                operations: Vec::new(alloc),
                blocks: Vec::new(alloc),
                values: Vec::new(alloc),
            },
            ends: Vec::new(alloc),
            open: Vec::new(alloc),
        }
    }

    // The part of the text from this place up to that one. Places of parts rise.
    fn part(&mut self, start: usize, end: usize) -> TextPart {
        let passed = self.cursor.bytes(ByteRange {
            start: self.lines.bytes,
            end: start,
        });
        for byte in passed {
            self.lines.bytes = self.lines.bytes.saturating_add(1);
            if *byte == b'\n' {
                self.lines.line = self.lines.line.saturating_add(1);
                self.lines.line_start = self.lines.bytes;
            }
        }
        TextPart {
            start,
            len: end.saturating_sub(start),
            line: self.lines.line,
            column: start
                .saturating_sub(self.lines.line_start)
                .saturating_add(1),
        }
    }

    // Skips to the first operation.
    fn skip_to(&mut self, place: usize) {
        for _ in self.cursor.place()..place {
            self.cursor.step();
        }
    }

    // Takes in all of the text.
    fn all(&mut self, syntax: &ModuleSyntax) -> Result<(), Fault> {
        if let Some(root) = syntax.operations.first() {
            self.skip_to(root.place);
        }
        for number in 0..syntax.operations.len() {
            self.blocks(syntax, number)?;
            if let Some(op) = syntax.operations.get(number).copied() {
                self.operation(&op)?;
            }
        }
        self.blocks(syntax, syntax.operations.len())?;
        self.close_regions()
    }

    // Takes in the blocks that the text has before the operation of this number.
    fn blocks(&mut self, syntax: &ModuleSyntax, number: usize) -> Result<(), Fault> {
        for at in self.parts.blocks.len()..syntax.blocks.len() {
            match syntax.blocks.get(at) {
                Some(block) if block.before <= number => self.block()?,
                _ => break,
            }
        }
        Ok(())
    }

    // Takes in the head of a block with its arguments; a block without a head is an empty part.
    fn block(&mut self) -> Result<(), Fault> {
        self.close_regions()?;
        let start = self.cursor.place();
        if self.cursor.peek() != Some(b'^') {
            let part = self.part(start, start);
            self.parts.blocks.push(part)?;
            return Ok(());
        }
        self.cursor.step();
        let name = self.cursor.word(Expectation::Name)?;
        let number = self.parts.blocks.len();
        let part = self.part(start, name.end);
        self.parts.blocks.push(part)?;
        let mut end = name.end;
        if self.cursor.accept(b'(') {
            if !self.cursor.accept(b')') {
                self.arguments(number)?;
            }
            end = self.cursor.place();
        }
        if let Some(part) = self.parts.blocks.last_mut() {
            part.len = end.saturating_sub(start);
        }
        self.cursor.expect(b':', Expectation::Colon)
    }

    // Takes in the arguments of the block with this number, and the bracket behind them.
    fn arguments(&mut self, number: usize) -> Result<(), Fault> {
        for _ in 0..self.cursor.bytes_left() {
            let part = self.value_name()?;
            self.add_values(part, Some(number), 1)?;
            self.cursor.expect(b':', Expectation::Colon)?;
            self.cursor.any_type(self.alloc)?;
            self.skip_location()?;
            if self.cursor.accept(b')') {
                return Ok(());
            }
            self.cursor.expect(b',', Expectation::CloseRound)?;
        }
        Err(self.cursor.fault(Expectation::CloseRound))
    }

    // The name of a value, with its sign.
    fn value_name(&mut self) -> Result<TextPart, Fault> {
        self.cursor.expect(b'%', Expectation::Value)?;
        let name = self.cursor.word(Expectation::Name)?;
        Ok(self.part(name.start.saturating_sub(1), name.end))
    }

    // So many values have this name.
    fn add_values(
        &mut self,
        part: TextPart,
        block: Option<usize>,
        count: usize,
    ) -> Result<(), AllocError> {
        for _ in 0..count {
            self.parts.values.push(ValueName { part, block })?;
        }
        Ok(())
    }

    // Takes in an operation: up to its regions, into the first of which this goes, or with all that is behind it.
    fn operation(&mut self, op: &OperationSyntax) -> Result<(), Fault> {
        self.close_regions()?;
        let start = self.cursor.place();
        let part = self.part(start, start);
        if op.named > 0 {
            self.results()?;
        } else {
            let (_, count) = op.results;
            self.add_values(part, None, count)?;
        }
        self.cursor.string(Expectation::Operation)?;
        let end = if op.regions > 0 {
            let end = self.brackets(b"([<")?;
            self.cursor.expect(b'(', Expectation::OpenRound)?;
            self.cursor.expect(b'{', Expectation::OpenBrace)?;
            self.open.push(self.ends.len())?;
            end
        } else {
            self.brackets(b"([<{")?;
            self.types()?
        };
        self.ends.push(end)?;
        self.parts.operations.push(TextPart {
            len: end.saturating_sub(start),
            ..part
        })?;
        Ok(())
    }

    // Takes in the names of results, up to the name of their operation.
    fn results(&mut self) -> Result<(), Fault> {
        for _ in 0..self.cursor.bytes_left() {
            let part = self.value_name()?;
            let count = if self.cursor.accept(b':') {
                self.cursor.skip();
                let digits = self.cursor.word(Expectation::Number)?;
                count_of(self.cursor.bytes(digits))
            } else {
                1
            };
            self.add_values(part, None, count)?;
            if self.cursor.accept(b'=') {
                self.cursor.skip();
                return Ok(());
            }
            self.cursor.expect(b',', Expectation::CommaOrEquals)?;
        }
        Err(self.cursor.fault(Expectation::Equals))
    }

    // Skips brackets of these kinds, each behind blanks, and answers where the last one ends; of round ones only the first
    // bracket of all.
    fn brackets(&mut self, kinds: &[u8]) -> Result<usize, Fault> {
        let mut end = self.cursor.place();
        for count in 0..self.cursor.bytes_left() {
            let before = self.cursor;
            self.cursor.skip();
            match self.cursor.peek() {
                Some(byte) if kinds.contains(&byte) && (byte != b'(' || count == 0) => {
                    self.cursor.bracket(self.alloc)?;
                    end = self.cursor.place();
                }
                _ => {
                    self.cursor = before;
                    break;
                }
            }
        }
        Ok(end)
    }

    // Skips the types of an operation and its location, and answers where they end.
    fn types(&mut self) -> Result<usize, Fault> {
        self.cursor.expect(b':', Expectation::Colon)?;
        self.cursor.any_type(self.alloc)?;
        self.skip_location()?;
        Ok(self.cursor.place())
    }

    // Skips a location, if one is there.
    fn skip_location(&mut self) -> Result<(), Fault> {
        let before = self.cursor;
        self.cursor.skip();
        if self.cursor.peek() != Some(b'l') {
            self.cursor = before;
            return Ok(());
        }
        self.cursor.word(Expectation::Name)?;
        self.cursor.skip();
        self.cursor.bracket(self.alloc)?;
        Ok(())
    }

    // The operation whose region was opened last ends here.
    fn end_last(&mut self, end: usize) {
        if let Some(number) = self.open.pop()
            && let Some(place) = self.ends.get_mut(number)
        {
            *place = end;
        }
    }

    // Goes to what is next: behind the ends of regions, the attributes and types there, and into a next region.
    fn close_regions(&mut self) -> Result<(), Fault> {
        for _ in 0..self.cursor.bytes_left() {
            if !self.cursor.accept(b'}') {
                break;
            }
            if self.cursor.accept(b',') {
                self.cursor.expect(b'{', Expectation::OpenBrace)?;
            } else {
                self.cursor.expect(b')', Expectation::RegionOrEnd)?;
                self.brackets(b"{")?;
                let end = self.types()?;
                self.end_last(end);
            }
        }
        self.cursor.skip();
        Ok(())
    }
}

/// Where the operations, the heads of blocks and the names of values are in a text in the generic form, in the order in
/// which reading makes them. A block without a head, and a value without a name, is an empty part. A text that isn't in
/// the generic form has none of them.
///
/// Errors: allocation failure. Cost: that of reading the text.
pub fn module_parts(alloc: Global, text: &[u8]) -> Result<TextParts, AllocError> {
    let mut walk = PartsWalk::new(alloc, text);
    match walk_through(alloc, text, &mut walk) {
        Ok(_) => Ok(walk.parts),
        Err(error) => Err(error),
    }
}

// Takes in the text, and answers its syntax; `None` of a text that isn't in the generic form.
fn walk_through(
    alloc: Global,
    text: &[u8],
    walk: &mut PartsWalk,
) -> Result<Option<ModuleSyntax>, AllocError> {
    match parse_text(alloc, text) {
        Ok(parsed) => match walk.all(&parsed.syntax) {
            Err(Fault::NoMemory) => Err(AllocError),
            _ => Ok(Some(parsed.syntax)),
        },
        Err(Fault::NoMemory) => Err(AllocError),
        Err(_) => Ok(None),
    }
}

// The number of the operation at this index in the region at that index of an operation, counted over its blocks.
fn inner_number(
    syntax: &ModuleSyntax,
    holder: usize,
    region: usize,
    index: usize,
) -> Option<usize> {
    let mut before = 0usize;
    for number in holder..syntax.operations.len() {
        let block = syntax.operations.get(number)?.block;
        let is_inside = match block.and_then(|block| syntax.blocks.get(block)) {
            Some(block) => block.parent == holder && block.region == region,
            None => false,
        };
        if is_inside && before == index {
            return Some(number);
        }
        before = before.saturating_add(is_inside as usize);
    }
    None
}

// The number of the operation at the end of the path.
fn number_at(syntax: &ModuleSyntax, path: &str) -> Option<usize> {
    let mut holder = 0usize;
    let mut region = None;
    for word in path.split('.') {
        let number = word.parse::<usize>().ok()?;
        region = match region {
            None if number < syntax.operations.get(holder)?.regions => Some(number),
            None => return None,
            Some(region) => {
                holder = inner_number(syntax, holder, region, number)?;
                None
            }
        };
    }
    Some(holder)
}

/// The operation at the end of a path in a text in the generic form: numbers with dots between them, in turn that of a
/// region of an operation and that of an operation directly in the region, counted over its blocks, each from 0. A path
/// that ends with a region leads to the operation that holds it. `None` where the text has no such operation; all of a text that isn't in the generic
/// form.
///
/// Errors: allocation failure. Cost: that of reading the text, and linear in it for each operation on the path.
pub fn module_range(alloc: Global, text: &[u8], path: &str) -> Result<Option<TextRange>, AllocError>
    ensures { IfOk result (λ found. IfSome found (λ part. part.start + part.len ≤ length text.now)) }
{
    let mut walk = PartsWalk::new(alloc, text);
    let Some(syntax) = walk_through(alloc, text, &mut walk)? else {
        return Ok(Some(TextRange {
            start: 0,
            len: text.len(),
        }));
    };
    let Some(number) = number_at(&syntax, path) else {
        return Ok(None);
    };
    match (walk.parts.operations.get(number), walk.ends.get(number)) {
        (Some(part), Some(end)) if part.start <= *end && *end <= text.len() => Ok(Some(
            TextRange {
                start: part.start,
                len: *end - part.start,
            },
        )),
        _ => Ok(None),
    }
}
