//! Reading a text by its grammar.
ghost use Rattle.std.specs.Prelude.{◌≡◌};
ghost use Rattle.pliron_text_mlir_reader.specs.Known.{known_in_quotes};

use crate::known::{KnownName, KnownNames};
use crate::taken_head::TakenHead;
use pliron_text_mlir_syntax::{
    BlockSyntax, ByteRange, Expectation, Fault, MAX_DEPTH, ModuleSyntax, NameTable, Sheet,
    TextCursor,
};
use std::alloc::Global;

/// A name with its value, if it has one, in a property list or an attribute dictionary.
#[derive(Clone, Copy, Debug)]
pub struct Entry {
    pub name: ByteRange,
    pub value: Option<ByteRange>,
}

/// An operation that is being read.
#[derive(Clone, Copy)]
pub struct Pending<'t> {
    /// Its number.
    pub number: usize,
    pub place: usize,
    /// Its name with quotes.
    pub name: &'t [u8],
    pub known: KnownName,
    /// The first of its operands, and how many.
    pub operands: (usize, usize),
    /// How many successors it has.
    pub successors: usize,
    /// How many named results.
    pub named: usize,
    /// How many regions have begun.
    pub regions: usize,
    /// The text inside its property list.
    pub properties: Option<ByteRange>,
    /// The entry of the property list with its name, where it owns one.
    pub symbol: Option<Entry>,
    /// The block around it.
    pub block: Option<usize>,
    pub ghost by_name: { known ≡ known_in_quotes name.now },
}

/// A text that is read up to some byte.
#[derive(Drop)]
pub struct Reader<'t> {
    pub alloc: Global,
    pub cursor: TextCursor<'t>,
    /// Whether functions that can't be served are looked for, and kept as they are.
    pub keeps: bool,
    pub syntax: ModuleSyntax,
    /// By the numbers of operations, none for those that are open.
    pub heads: Vec<Option<TakenHead>>,
    pub sheet: Sheet,
    pub names: KnownNames,
    pub values: NameTable,
    pub blocks: NameTable,
    /// How many values have numbers.
    pub num_value: usize,
    /// The operations whose regions are being read.
    pub open: Vec<Pending<'t>>,
    /// The block that is being read.
    pub block: Option<usize>,
    /// Of the operation that is being read: properties, behind regions only the one with its name; attributes, the type of
    /// the first operand, types of results.
    pub properties: Vec<Entry>,
    pub attributes: Vec<Entry>,
    pub operand: Option<ByteRange>,
    pub types: Vec<ByteRange>,
}

impl<'t> Reader<'t> {
    /// At the start of a text. Takes no memory. Cost: constant.
    pub fn new(alloc: Global, text: &'t [u8], keeps: bool) -> Self {
        Reader {
            alloc,
            cursor: TextCursor::new(text),
            keeps,
            syntax: ModuleSyntax::new(alloc),
            heads: Vec::new(alloc),
            sheet: Sheet::new(alloc),
            names: KnownNames::new(alloc),
            values: NameTable::new(alloc),
            blocks: NameTable::new(alloc),
            num_value: 0,
            open: Vec::new(alloc),
            block: None,
            properties: Vec::new(alloc),
            attributes: Vec::new(alloc),
            operand: None,
            types: Vec::new(alloc),
        }
    }

    /// Reads all of the text. Errors: where it leaves the grammar, and what was expected; allocation failure. Cost:
    /// linear in the text, but for uses in regions inside the one that defines their value, which cost a step for each
    /// region between.
    pub fn read(&mut self) -> Result<(), Fault> {
        self.before()?;
        self.values.open()?;
        self.blocks.open()?;
        self.operation()?;
        for _ in 0..self.cursor.bytes_left() {
            if self.open.is_empty() {
                break;
            }
            self.item()?;
        }
        if !self.open.is_empty() {
            return Err(self.cursor.fault(Expectation::OperationOrEnd));
        }
        if let Some(place) = self.blocks.close(&mut self.syntax.successors) {
            return Err(Fault::Expected(place, Expectation::DefinedBlock));
        }
        if let Some(place) = self.values.close(&mut self.syntax.operands) {
            return Err(Fault::Expected(place, Expectation::DefinedValue));
        }
        self.behind()
    }

    // Aliases up to the operation.
    fn before(&mut self) -> Result<(), Fault> {
        self.cursor.skip();
        let start = self.cursor.place();
        for _ in 0..self.cursor.bytes_left() {
            match self.cursor.peek() {
                Some(b'#') | Some(b'!') => self.alias()?,
                _ => break,
            }
            self.cursor.skip();
        }
        let aliases = self.cursor.bytes(self.cursor.since(start));
        self.sheet.set_before(aliases)?;
        Ok(())
    }

    // A name, `=`, and raw text up to the end of a line.
    fn alias(&mut self) -> Result<(), Fault> {
        self.cursor.step();
        self.cursor.word(Expectation::Name)?;
        self.cursor.expect(b'=', Expectation::Equals)?;
        self.cursor.line(self.alloc)
    }

    // Aliases and resources up to the end of the text.
    fn behind(&mut self) -> Result<(), Fault> {
        self.cursor.skip();
        let start = self.cursor.place();
        for _ in 0..self.cursor.bytes_left() {
            match self.cursor.peek() {
                Some(b'#') | Some(b'!') => self.alias()?,
                Some(b'{') => {
                    self.cursor.bracket(self.alloc)?;
                }
                Some(_) => return Err(self.cursor.fault(Expectation::End)),
                None => break,
            }
            self.cursor.skip();
        }
        let aliases = self.cursor.bytes(self.cursor.since(start));
        self.sheet.set_behind(aliases)?;
        Ok(())
    }

    // What a region contains: a block's name, an operation, or the end.
    fn item(&mut self) -> Result<(), Fault> {
        self.cursor.skip();
        match self.cursor.peek() {
            Some(b'}') => self.region_end(),
            Some(b'^') => self.block(),
            Some(_) => {
                if self.block.is_none() {
                    self.add_block(0, 0)?;
                }
                self.operation()
            }
            None => Err(self.cursor.fault(Expectation::OperationOrEnd)),
        }
    }

    /// A region of the operation begins. Errors: none does; it is nested too deeply; allocation failure. Cost:
    /// constant.
    pub fn region(&mut self, mut pending: Pending<'t>) -> Result<(), Fault> {
        self.cursor.expect(b'{', Expectation::OpenBrace)?;
        if self.open.len() >= MAX_DEPTH {
            return if self.keeps {
                Err(self.cursor.fault(Expectation::FewerRegions))
            } else {
                Err(Fault::KeptAsText)
            };
        }
        pending.regions = pending.regions.saturating_add(1);
        self.open.push(pending)?;
        self.values.open()?;
        self.blocks.open()?;
        self.block = None;
        Ok(())
    }

    fn region_end(&mut self) -> Result<(), Fault> {
        self.cursor.step();
        if let Some(place) = self.blocks.close(&mut self.syntax.successors) {
            return Err(Fault::Expected(place, Expectation::DefinedBlock));
        }
        let _ = self.values.close(&mut self.syntax.operands);
        let Some(pending) = self.open.pop() else {
            return Err(self.cursor.fault(Expectation::End));
        };
        if self.cursor.accept(b',') {
            return self.region(pending);
        }
        self.cursor.expect(b')', Expectation::RegionOrEnd)?;
        self.block = pending.block;
        self.properties.clear();
        if let Some(entry) = pending.symbol {
            self.properties.push(entry)?;
        }
        self.tail(&pending)
    }

    // The next block, whose arguments have these types.
    fn add_block(&mut self, first: usize, count: usize) -> Result<usize, Fault> {
        let number = self.syntax.blocks.len();
        let Some(parent) = self.open.last() else {
            return Err(self.cursor.fault(Expectation::Operation));
        };
        self.syntax.blocks.push(BlockSyntax {
            parent: parent.number,
            region: parent.regions.saturating_sub(1),
            arguments: (first, count),
            before: self.syntax.operations.len(),
        })?;
        self.block = Some(number);
        Ok(number)
    }

    fn block(&mut self) -> Result<(), Fault> {
        let place = self.cursor.place();
        self.cursor.step();
        let name = self.cursor.word(Expectation::Name)?;
        let number = self.syntax.blocks.len();
        if !self.blocks.define(self.cursor.bytes(name), number, 1)? {
            return Err(Fault::Expected(place, Expectation::NewBlock));
        }
        let first = self.syntax.types.len();
        if self.cursor.accept(b'(') && !self.cursor.accept(b')') {
            self.arguments()?;
        }
        let count = self.syntax.types.len().saturating_sub(first);
        self.add_block(first, count)?;
        self.cursor.expect(b':', Expectation::Colon)
    }

    fn arguments(&mut self) -> Result<(), Fault> {
        for _ in 0..self.cursor.bytes_left() {
            self.argument()?;
            if self.cursor.accept(b')') {
                return Ok(());
            }
            self.cursor.expect(b',', Expectation::CloseRound)?;
        }
        Err(self.cursor.fault(Expectation::CloseRound))
    }

    fn argument(&mut self) -> Result<(), Fault> {
        let name = self.value_name()?;
        self.define(name, 1)?;
        self.cursor.expect(b':', Expectation::Colon)?;
        let span = self.cursor.any_type(self.alloc)?;
        let number = self.sheet.number(self.cursor.bytes(span))?;
        if let Some(location) = self.location()? {
            let at = self.syntax.types.len();
            self.syntax.locations.push((at, location))?;
        }
        self.syntax.types.push(number)?;
        Ok(())
    }

    /// From here on the name stands for the next values, so many. Errors: the region has already defined it; allocation
    /// failure. Cost: the length of the name.
    pub fn define(&mut self, name: ByteRange, count: usize) -> Result<(), Fault> {
        if !self
            .values
            .define(self.cursor.bytes(name), self.num_value, count)?
        {
            return Err(Fault::Expected(name.start.saturating_sub(1), Expectation::NewValue));
        }
        self.num_value = self.num_value.saturating_add(count);
        Ok(())
    }

    /// Scans the name of a value, and answers it without `%`. Errors: none is there. Cost: its length.
    pub fn value_name(&mut self) -> Result<ByteRange, Fault> {
        self.cursor.expect(b'%', Expectation::Value)?;
        self.cursor.word(Expectation::Name)
    }

    /// Scans a location, if one is there, and answers the number of its text. Errors: as `raw`; allocation failure.
    /// Cost: its length.
    pub fn location(&mut self) -> Result<Option<usize>, Fault> {
        self.cursor.skip();
        if self.cursor.peek() != Some(b'l') {
            return Ok(None);
        }
        let start = self.cursor.place();
        self.cursor.word(Expectation::Name)?;
        self.cursor.skip();
        self.cursor.bracket(self.alloc)?;
        let span = self.cursor.since(start);
        Ok(Some(self.sheet.number(self.cursor.bytes(span))?))
    }
}
