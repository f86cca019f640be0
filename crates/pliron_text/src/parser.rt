//! From tokens to syntax.
use crate::cursor::Cursor;
use crate::expected::ExpectedItem;
use crate::grammar::{Body, Count, Grammar, Tail};
use crate::labels::{Label, Labels};
use crate::stop::Stop;
use crate::syntax::{AttributeText, BlockText, OperationText, Syntax, SyntaxStep};
use crate::tokens::{Name, Token, Tokens};
use std::alloc::Global;

/// How deeply regions may be nested.
const MAX_DEPTH: usize = 64;

/// The operation whose regions are read.
#[derive(Clone, Copy, Drop)]
struct Parent {
    /// Its number, unless it is the whole text.
    operation: Option<usize>,
    body: Body,
    regions: Count,
}

impl Parent {
    #[inline(always)]
    fn of<K: Grammar>(operation: Option<usize>, kind: K) -> Self {
        Parent {
            operation,
            body: kind.body(),
            regions: kind.regions(),
        }
    }
}

/// A region that is open.
#[derive(Clone, Copy, Drop)]
struct UnclosedRegion {
    parent: Parent,
    /// Its place among the regions of its parent.
    place: usize,
    /// How many regions were opened before it.
    number: usize,
    /// The number of the region in which names of its values began anew: its own, or one around it.
    scope: usize,
    /// Its last block so far.
    block: Option<usize>,
}

impl UnclosedRegion {
    // What is around the whole text.
    fn around(body: Body) -> Self {
        UnclosedRegion {
            parent: Parent {
                operation: None,
                body,
                regions: Count::Any,
            },
            place: 0,
            number: 0,
            scope: 0,
            block: None,
        }
    }

    // Whether the region has a block at least.
    fn needs_block(&self) -> bool {
        matches!(self.parent.body, Body::SomeBlocks | Body::Function)
    }

    // Whether the region is a module's.
    fn is_module(&self) -> bool {
        self.parent.body == Body::Module
    }
}

/// Where a region was opened: its place among those of an operation, or of the whole text.
#[derive(Clone, Copy, Drop)]
struct RegionPlace {
    operation: Option<usize>,
    place: usize,
}

/// What was read last in a region.
#[derive(Clone, Copy, PartialEq, Eq)]
enum LastRead {
    /// The brace that opens the region.
    RegionStart,
    /// The colon of a block.
    BlockStart,
    /// An operation that others may follow.
    Operation,
    /// An operation with successors.
    Branch,
}

/// A text that is read up to some token.
#[derive(Drop)]
struct Parser<'t, K> {
    alloc: Global,
    cursor: Cursor<'t, K>,
    syntax: Syntax,
    values: Labels,
    blocks: Labels,
    /// The innermost open region, or what is around the whole text.
    region: UnclosedRegion,
    /// What is around the whole text, and the open regions around the innermost one.
    outer: Vec<UnclosedRegion>,
    /// Of each region in the order in which they were opened.
    places: Vec<RegionPlace>,
}

/// The syntax of a text, by its tokens. Errors: `Unreadable` where the text is outside the notation; allocation
/// failure. Cost: linear in the tokens.
#[inline(never)]
pub fn parse<K: Grammar>(alloc: Global, text: &Tokens<K>) -> Result<Syntax, Stop> {
    let mut parser = Parser {
        alloc,
        cursor: Cursor::new(&text.tokens),
        syntax: Syntax::new(alloc),
        values: Labels::new(alloc, text.names)?,
        blocks: Labels::new(alloc, text.names)?,
        region: UnclosedRegion::around(K::around()),
        outer: Vec::new(alloc),
        places: Vec::new(alloc),
    };
    parser.reserve(text)?;
    parser.whole(text.tokens.len())?;
    parser.resolve()?;
    parser.number_regions()?;
    Ok(parser.syntax)
}

impl<K: Grammar> Parser<'_, K> {
    // Makes room for what most texts of these tokens have.
    fn reserve(&mut self, text: &Tokens<K>) -> Result<(), Stop> {
        self.values.reserve(text.names)?;
        self.syntax.reserve(text.tokens.len() / 4)?;
        Ok(())
    }

    // Reads the operation that the whole text is, with all that is inside it, up to the end of the text.
    fn whole(&mut self, count: usize) -> Result<(), Stop> {
        let mut place = self.operation()?;
        // Each turn takes a token.
        for _ in 0..count {
            if self.outer.is_empty() {
                break;
            }
            place = self.step(place)?;
        }
        if self.outer.is_empty() && self.cursor.len() == 0 {
            Ok(())
        } else {
            Err(self.cursor.stop(ExpectedItem::End))
        }
    }

    // Reads the kind of a whole text that stands at the top.
    fn top_kind(&mut self) -> Result<K, Stop> {
        let kind = self.cursor.kind(ExpectedItem::Root)?;
        if kind.is_top() {
            Ok(kind)
        } else {
            Err(self.cursor.stop_before(ExpectedItem::Root))
        }
    }

    // Reads the next block or operation of the region, or its end.
    fn step(&mut self, place: LastRead) -> Result<LastRead, Stop> {
        if self.cursor.accept(Token::CloseBrace) {
            return self.close_region(place);
        }
        let is_parted = place == LastRead::RegionStart || self.cursor.accept(Token::Semicolon);
        if is_parted && self.cursor.at_block() {
            return self.block();
        }
        match (place, is_parted) {
            (LastRead::BlockStart, false) | (LastRead::Operation, true) => self.operation(),
            _ => Err(self.cursor.stop(self.expectation(place, is_parted))),
        }
    }

    // What was expected next in the region, after this and with a semicolon or without one.
    fn expectation(&self, place: LastRead, is_parted: bool) -> ExpectedItem {
        match (place, is_parted) {
            (LastRead::RegionStart, _) if self.region.needs_block() => ExpectedItem::BlockOfRegion,
            (LastRead::RegionStart, _) => ExpectedItem::BlockOrEnd,
            (LastRead::BlockStart, false) => ExpectedItem::OperationOrEnd,
            (LastRead::BlockStart, true) => ExpectedItem::Block,
            (LastRead::Branch, true) => ExpectedItem::BlockAfterBranch,
            (_, false) => ExpectedItem::SemicolonOrEnd,
            (_, true) => ExpectedItem::OperationOrBlock,
        }
    }

    // Opens the region at this place of an operation, if it has one there.
    fn next_region(&mut self, parent: Parent, place: usize) -> Result<LastRead, Stop> {
        let opens = match parent.regions {
            Count::Exactly(count) => place < count,
            Count::Any => self.cursor.is_next(Token::OpenBrace),
        };
        if opens {
            self.open_region(parent, place)?;
            Ok(LastRead::RegionStart)
        } else {
            Ok(LastRead::Operation)
        }
    }

    // Opens the region at this place of an operation.
    fn open_region(&mut self, parent: Parent, place: usize) -> Result<(), Stop> {
        if self.outer.len() >= MAX_DEPTH {
            return Err(self.cursor.stop_before(ExpectedItem::FewerRegions));
        }
        self.cursor
            .expect(Token::OpenBrace, ExpectedItem::OpenBrace)?;
        let number = self.places.len();
        let operation = parent.operation;
        self.places.push(RegionPlace { operation, place })?;
        self.syntax.set_regions(operation, place.saturating_add(1));
        let scope = if parent.body == Body::Function {
            number
        } else {
            self.region.scope
        };
        self.outer.push(self.region)?;
        self.region = UnclosedRegion {
            parent,
            place,
            number,
            scope,
            block: None,
        };
        Ok(())
    }

    // Ends the region, and opens the next one of the same operation, if there is one. The brace is taken.
    fn close_region(&mut self, last: LastRead) -> Result<LastRead, Stop> {
        if self.region.needs_block() && last == LastRead::RegionStart {
            return Err(self.cursor.stop_before(ExpectedItem::BlockOfRegion));
        }
        let UnclosedRegion { parent, place, .. } = self.region;
        if let Some(region) = self.outer.pop() {
            self.region = region;
        }
        self.next_region(parent, place.saturating_add(1))
    }

    // Reads the head of a block.
    fn block(&mut self) -> Result<LastRead, Stop> {
        let name = self.cursor.name(ExpectedItem::Block)?;
        let number = self.syntax.blocks.len();
        let scope = self.region.number;
        let token = self.cursor.last();
        if !self.blocks.define(Label { scope, name }, number, token)? {
            return Err(Stop::at(token, ExpectedItem::NewBlock));
        }
        self.cursor
            .expect(Token::OpenRound, ExpectedItem::OpenRound)?;
        let arguments = self.arguments()?;
        self.cursor.expect(Token::Colon, ExpectedItem::Colon)?;
        self.syntax.steps.push(SyntaxStep::Block(number))?;
        self.syntax.blocks.push(BlockText {
            region: scope,
            arguments,
            last: None,
        })?;
        self.region.block = Some(number);
        Ok(LastRead::BlockStart)
    }

    // Reads the arguments of a block up to the closing bracket, and answers how many there are.
    fn arguments(&mut self) -> Result<usize, Stop> {
        let first = self.syntax.values;
        if self.cursor.accept(Token::CloseRound) {
            return Ok(0);
        }
        if self.region.is_module() {
            return Err(self.cursor.stop(ExpectedItem::NoArguments));
        }
        // Each turn takes a token.
        for _ in 0..self.cursor.len() {
            let name = self.cursor.name(ExpectedItem::Value)?;
            self.define(name)?;
            if self.is_list_end()? {
                return Ok(self.syntax.values.saturating_sub(first));
            }
        }
        Err(self.cursor.stop(ExpectedItem::Value))
    }

    // Reads what follows a member of a list in brackets, and answers whether it is the closing one.
    fn is_list_end(&mut self) -> Result<bool, Stop> {
        if self.cursor.accept(Token::CloseRound) {
            return Ok(true);
        }
        self.cursor
            .expect(Token::Comma, ExpectedItem::CommaOrCloseRound)?;
        Ok(false)
    }

    // Takes in that the next value of the text has this name.
    fn define(&mut self, name: Name) -> Result<(), Stop> {
        let number = self.syntax.values;
        let scope = self.region.scope;
        let token = self.cursor.last();
        if !self.values.define(Label { scope, name }, number, token)? {
            return Err(Stop::at(token, new_value::<K>()));
        }
        self.syntax.values = number.saturating_add(1);
        Ok(())
    }

    // Reads an operation up to its first region, which it opens: the whole text, or one in a block.
    fn operation(&mut self) -> Result<LastRead, Stop> {
        let is_whole = self.outer.is_empty();
        let (kind, results) = if is_whole && self.region.is_module() {
            (self.top_kind()?, 0)
        } else {
            self.kind()?
        };
        let mut text = OperationText::new(self.alloc, kind.number(), kind.is_ssa());
        text.results = results;
        self.tail(kind.tail(), &mut text)?;
        let is_branch = !text.successors.is_empty();
        let number = if is_whole {
            self.syntax.root = text;
            None
        } else {
            Some(self.add_operation(text)?)
        };
        let after = if is_branch {
            LastRead::Branch
        } else {
            LastRead::Operation
        };
        if kind.regions() == Count::Exactly(0) {
            return Ok(after);
        }
        match self.next_region(Parent::of(number, kind), 0)? {
            LastRead::Operation => Ok(after),
            last => Ok(last),
        }
    }

    // Adds an operation to the last block of the region, and answers its number.
    fn add_operation(&mut self, mut text: OperationText) -> Result<usize, Stop> {
        let Some(block) = self.region.block else {
            return Err(self.cursor.stop_before(ExpectedItem::BlockOfRegion));
        };
        text.block = block;
        let number = self.syntax.add_operation(text)?;
        if let Some(block) = self.syntax.blocks.get_mut(block) {
            block.last = Some(number);
        }
        Ok(number)
    }

    // Reads the results and the kind of an operation, which are to fit one another and the region, and answers the kind
    // and how many results there are.
    #[inline(always)]
    fn kind(&mut self) -> Result<(K, usize), Stop> {
        let count = self.results()?;
        let kind = self.cursor.kind(ExpectedItem::Kind)?;
        let in_module = self.region.is_module();
        if kind.is_top() != in_module {
            let expected = if in_module {
                ExpectedItem::TopKind
            } else {
                ExpectedItem::InnerKind
            };
            return Err(self.cursor.stop_before(expected));
        }
        match kind.results() {
            Count::Exactly(results) if results != count => {
                Err(self.cursor.stop_before(kind_with(count)))
            }
            _ => Ok((kind, count)),
        }
    }

    // Reads the results before a kind, and answers how many there are.
    fn results(&mut self) -> Result<usize, Stop> {
        let Some(name) = self.cursor.accept_name() else {
            return Ok(0);
        };
        self.define(name)?;
        // Each turn takes a token.
        for count in 1..K::most_results() {
            if self.cursor.accept(Token::Equals) {
                return Ok(count);
            }
            self.cursor
                .expect(Token::Comma, ExpectedItem::CommaOrEquals)?;
            let name = self.cursor.name(ExpectedItem::Value)?;
            self.define(name)?;
        }
        self.cursor.expect(Token::Equals, ExpectedItem::Equals)?;
        Ok(K::most_results())
    }

    // Reads what is behind a kind, up to a region.
    #[inline(always)]
    fn tail(&mut self, tail: Tail, text: &mut OperationText) -> Result<(), Stop> {
        match tail {
            Tail::Number => {
                text.attribute = AttributeText::Number(self.cursor.number()?);
                Ok(())
            }
            Tail::Operands(count) => {
                for _ in 0..count {
                    self.operand(text)?;
                }
                Ok(())
            }
            Tail::AnyOperands => self.operands(text),
            Tail::Fork => {
                self.operand(text)?;
                self.successor(text)?;
                self.successor(text)
            }
            Tail::Edge => self.edge(text),
            Tail::TwoEdges => self.edges(text),
        }
    }

    // Reads an operand.
    #[inline(always)]
    fn operand(&mut self, text: &mut OperationText) -> Result<(), Stop> {
        let name = self.cursor.name(ExpectedItem::Value)?;
        self.add_operand(name, text)
    }

    // Takes in that the name that was read last is an operand.
    #[inline(always)]
    fn add_operand(&mut self, name: Name, text: &mut OperationText) -> Result<(), Stop> {
        let scope = self.region.scope;
        let mention = self.cursor.last();
        let place = self.values.place(Label { scope, name }, mention)?;
        text.operands.push(place)?;
        Ok(())
    }

    // Reads operands as long as names follow.
    fn operands(&mut self, text: &mut OperationText) -> Result<(), Stop> {
        // Each turn takes a token.
        for _ in 0..self.cursor.len() {
            match self.cursor.accept_name() {
                Some(name) => self.add_operand(name, text)?,
                None => break,
            }
        }
        Ok(())
    }

    // Reads a successor.
    fn successor(&mut self, text: &mut OperationText) -> Result<(), Stop> {
        let name = self.cursor.name(ExpectedItem::Block)?;
        let scope = self.region.number;
        let mention = self.cursor.last();
        let place = self.blocks.place(Label { scope, name }, mention)?;
        text.successors.push(place)?;
        Ok(())
    }

    // Reads a successor and what is forwarded to it.
    fn edge(&mut self, text: &mut OperationText) -> Result<(), Stop> {
        self.successor(text)?;
        self.cursor
            .expect(Token::OpenRound, ExpectedItem::OpenRound)?;
        if self.cursor.accept(Token::CloseRound) {
            return Ok(());
        }
        // Each turn takes a token.
        for _ in 0..self.cursor.len() {
            self.operand(text)?;
            if self.is_list_end()? {
                return Ok(());
            }
        }
        Err(self.cursor.stop(ExpectedItem::Value))
    }

    // Reads a condition and two edges.
    fn edges(&mut self, text: &mut OperationText) -> Result<(), Stop> {
        self.operand(text)?;
        self.edge(text)?;
        text.attribute = AttributeText::Count(text.operands.len().saturating_sub(1));
        self.edge(text)
    }

    // Writes the numbers of values and blocks for their names. A name that the text doesn't define
    // makes it unreadable.
    fn resolve(&mut self) -> Result<(), Stop> {
        match (self.values.first_undefined(), self.blocks.first_undefined()) {
            (None, None) => {}
            (Some(value), Some(block)) if block < value => {
                return Err(Stop::at(block, ExpectedItem::DefinedBlock));
            }
            (Some(value), _) => return Err(Stop::at(value, defined_value::<K>())),
            (None, Some(block)) => return Err(Stop::at(block, ExpectedItem::DefinedBlock)),
        }
        self.values
            .resolve(self.syntax.root.operands.as_mut_slice());
        self.blocks
            .resolve(self.syntax.root.successors.as_mut_slice());
        for operation in self.syntax.operations.iter_mut() {
            self.values.resolve(operation.operands.as_mut_slice());
            self.blocks.resolve(operation.successors.as_mut_slice());
        }
        Ok(())
    }

    // Gives each block the number of its region. An operation is made with all its regions, and so these are numbered in
    // another order than that in which they were opened, where there are more of an operation than one.
    fn number_regions(&mut self) -> Result<(), Stop> {
        if self.places.iter().all(|region| region.place == 0) {
            return Ok(());
        }
        let mut firsts = Vec::with_capacity(self.alloc, self.syntax.operations.len())?;
        let mut next = self.syntax.root.regions;
        for operation in &self.syntax.operations {
            firsts.push(next)?;
            next = next.saturating_add(operation.regions);
        }
        for block in self.syntax.blocks.iter_mut() {
            if let Some(region) = self.places.get(block.region) {
                let first = region
                    .operation
                    .and_then(|number| firsts.get(number).copied());
                block.region = first.unwrap_or(0).saturating_add(region.place);
            }
        }
        Ok(())
    }
}

// What was expected in place of a kind behind so many results, which it doesn't have.
fn kind_with(results: usize) -> ExpectedItem {
    match results {
        0 => ExpectedItem::KindWithoutResults,
        1 => ExpectedItem::KindWithOneResult,
        2 => ExpectedItem::KindWithTwoResults,
        _ => ExpectedItem::KindWithMoreResults,
    }
}

// What was expected in place of a value's name that was defined before.
fn new_value<K: Grammar>() -> ExpectedItem {
    match K::around() {
        Body::Module => ExpectedItem::NewValue,
        _ => ExpectedItem::NewValueOfText,
    }
}

// What was expected in place of a value's name that is never defined.
fn defined_value<K: Grammar>() -> ExpectedItem {
    match K::around() {
        Body::Module => ExpectedItem::DefinedValue,
        _ => ExpectedItem::DefinedValueOfText,
    }
}
