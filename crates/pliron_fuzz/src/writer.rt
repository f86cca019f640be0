//! Texts of functions, written by plans of their regions.
//!
//! A use of a well-defined text names a value that is defined before it: by an earlier operation of its block,
//! by an argument of it, or in a block that is on every path to it, in its own region or one around it. Every
//! edge of a branch forwards as many values as its target has arguments. Of a malformed text neither holds: a
//! use names any value of the function that is known to be defined, be it later, by the operation itself or in
//! a region that is left.

use crate::dice::Dice;
use crate::names::RandomName;
use crate::region_plan::{Exit, PlannedOperation, RegionPlan};
use std::alloc::{AllocError, Global};

/// The most regions of a function, and how deeply they may be nested.
const REGIONS: usize = 6;

const DEEP: usize = 4;

/// More parts than any text has.
const PARTS: usize = 100_000;

/// Constants that folding distinguishes.
static NUMBERS: [i64; 9] = [
    0,
    0,
    1,
    1,
    2,
    3,
    -1,
    9_223_372_036_854_775_807,
    -9_223_372_036_854_775_808,
];

/// A region that is being written, and how far it is.
#[derive(Drop)]
struct Frame {
    plan: RegionPlan,
    block: usize,
    // So many of the block's operations are written.
    step: usize,
    // The block's name is written.
    is_begun: bool,
}

/// A part of a text.
#[derive(Clone, Copy, Debug, PartialEq, Eq)]
enum WrittenPart {
    /// The name of a block, with its arguments.
    Name,
    PlannedOperation(PlannedOperation),
    Exit(Exit),
    /// The end of the innermost region.
    Close,
}

/// Writes the text of a function.
#[derive(Drop)]
struct Writer {
    alloc: Global,
    dice: Dice,
    is_hostile: bool,
    text: String,
    // The regions that are open, each in the one before.
    frames: Vec<Frame>,
    // So many regions were opened.
    regions: usize,
    // Values of regions that are left.
    left: Vec<RandomName>,
}

/// A function at random. Errors: allocation failure. Cost: linear in the text, and for each use in the values
/// that it may name.
pub fn function(alloc: Global, dice: Dice, is_hostile: bool) -> Result<(Dice, String), AllocError> {
    let mut writer = Writer {
        alloc,
        dice,
        is_hostile,
        text: String::new(alloc),
        frames: Vec::new(alloc),
        regions: 0,
        left: Vec::new(alloc),
    };
    writer.write()?;
    let Writer { dice, text, .. } = writer;
    Ok((dice, text))
}

// Adds the names of a block's arguments, and of the results of its first so many operations.
fn push_names(
    names: &mut Vec<RandomName>,
    plan: &RegionPlan,
    block: usize,
    count: usize,
) -> Result<(), AllocError> {
    let Some(found) = plan.blocks.get(block) else {
        return Ok(());
    };
    for place in 0..found.arguments {
        names.push(RandomName::Argument(plan.number, block, place))?;
    }
    for place in 0..found.results_before(count) {
        names.push(RandomName::Result(plan.number, block, place))?;
    }
    Ok(())
}

// Adds the names of all values that the region makes.
fn push_all_names(names: &mut Vec<RandomName>, plan: &RegionPlan) -> Result<(), AllocError> {
    for block in 0..plan.blocks.len() {
        push_names(names, plan, block, usize::MAX)?;
    }
    Ok(())
}

impl Writer {
    fn write(&mut self) -> Result<(), AllocError> {
        self.text.push_str("func")?;
        self.open(true)?;
        for _ in 0..PARTS {
            if self.frames.is_empty() {
                return Ok(());
            }
            self.write_part()?;
        }
        Ok(())
    }

    // Opens a region.
    fn open(&mut self, is_entered: bool) -> Result<(), AllocError> {
        let may_nest = self.frames.len() < DEEP && self.regions < REGIONS;
        let number = self.regions;
        let plan = RegionPlan::new(self.alloc, &mut self.dice, number, is_entered, may_nest)?;
        self.regions = self.regions.saturating_add(1);
        self.text.push_str(" {")?;
        self.frames.push(Frame {
            plan,
            block: 0,
            step: 0,
            is_begun: false,
        })?;
        Ok(())
    }

    // What comes next.
    fn next_part(&self) -> WrittenPart {
        let Some(frame) = self.frames.last() else {
            return WrittenPart::Close;
        };
        match frame.plan.blocks.get(frame.block) {
            None => WrittenPart::Close,
            Some(_) if !frame.is_begun => WrittenPart::Name,
            Some(plan) => match plan.steps.get(frame.step).copied() {
                Some(step) => WrittenPart::PlannedOperation(step),
                None => WrittenPart::Exit(plan.exit),
            },
        }
    }

    // Writes what comes next.
    fn write_part(&mut self) -> Result<(), AllocError> {
        match self.next_part() {
            WrittenPart::Name => self.write_name(),
            WrittenPart::PlannedOperation(step) => self.write_step(step),
            WrittenPart::Exit(exit) => self.write_exit(exit),
            WrittenPart::Close => self.close(),
        }
    }

    // Closes the innermost region.
    fn close(&mut self) -> Result<(), AllocError> {
        self.text.push_str(" }")?;
        if let Some(frame) = self.frames.pop() {
            push_all_names(&mut self.left, &frame.plan)?;
        }
        Ok(())
    }

    // Writes the name of a block, with its arguments.
    fn write_name(&mut self) -> Result<(), AllocError> {
        let Some(frame) = self.frames.last_mut() else {
            return Ok(());
        };
        frame.is_begun = true;
        let (number, block) = (frame.plan.number, frame.block);
        let before = if block > 0 { "; " } else { " " };
        write!(self.text, "{before}b{block}(").map_err(|_| AllocError)?;
        for place in 0..frame.plan.arguments(block) {
            let before = if place > 0 { ", " } else { "" };
            let name = RandomName::Argument(number, block, place);
            write!(self.text, "{before}{name}").map_err(|_| AllocError)?;
        }
        self.text.push_str("):")
    }

    // Writes an operation, and opens its region if it has one.
    fn write_step(&mut self, step: PlannedOperation) -> Result<(), AllocError> {
        self.write_results(step)?;
        match step {
            PlannedOperation::Const => self.write_constant()?,
            PlannedOperation::Add => self.write_operands("add", 2)?,
            PlannedOperation::Mul => self.write_operands("mul", 2)?,
            PlannedOperation::Div => self.write_operands("div", 2)?,
            PlannedOperation::Read => self.text.push_str("read")?,
            PlannedOperation::Print => self.write_operands("print", 1)?,
            PlannedOperation::Pair => self.text.push_str("pair")?,
            PlannedOperation::Sink => self.write_some_operands("sink")?,
            PlannedOperation::Scope => self.write_some_operands("scope")?,
            PlannedOperation::Box => self.text.push_str("box")?,
        }
        if let Some(frame) = self.frames.last_mut() {
            frame.step = frame.step.saturating_add(1);
        }
        match step {
            PlannedOperation::Scope => self.open(true),
            PlannedOperation::Box => self.open(false),
            _ => Ok(()),
        }
    }

    // Writes what is before an operation: the mark after the one before, and its results.
    fn write_results(&mut self, step: PlannedOperation) -> Result<(), AllocError> {
        let Some(frame) = self.frames.last() else {
            return Ok(());
        };
        let (number, block) = (frame.plan.number, frame.block);
        let first = match frame.plan.blocks.get(block) {
            Some(plan) => plan.results_before(frame.step),
            None => 0,
        };
        self.text.push_str(if frame.step > 0 { "; " } else { " " })?;
        for place in 0..step.results() {
            let before = if place > 0 { ", " } else { "" };
            let name = RandomName::Result(number, block, first.saturating_add(place));
            write!(self.text, "{before}{name}").map_err(|_| AllocError)?;
        }
        if step.results() > 0 {
            self.text.push_str(" = ")?;
        }
        Ok(())
    }

    fn write_constant(&mut self) -> Result<(), AllocError> {
        let number = self.dice.one_of(&NUMBERS).unwrap_or(0);
        write!(self.text, "const {number}").map_err(|_| AllocError)
    }

    // Writes the word and so many operands.
    fn write_operands(&mut self, word: &str, count: usize) -> Result<(), AllocError> {
        self.text.push_str(word)?;
        for _ in 0..count {
            let name = self.value()?;
            write!(self.text, " {name}").map_err(|_| AllocError)?;
        }
        Ok(())
    }

    // Writes the word and up to three operands.
    fn write_some_operands(&mut self, word: &str) -> Result<(), AllocError> {
        let count = self.dice.below(4) as usize;
        self.write_operands(word, count)
    }

    // Writes the end of a block, and continues with the next one.
    fn write_exit(&mut self, exit: Exit) -> Result<(), AllocError> {
        match exit {
            Exit::Open => {}
            Exit::Ret => {
                self.text.push_str("; ")?;
                self.write_some_operands("ret")?;
            }
            Exit::Br(to) => {
                self.text.push_str("; br")?;
                self.write_edge(to)?;
            }
            Exit::Cbr(to, other) => {
                self.text.push_str("; ")?;
                self.write_operands("cbr", 1)?;
                self.write_edge(to)?;
                self.write_edge(other)?;
            }
            Exit::Fork(to, other) => {
                self.text.push_str("; ")?;
                self.write_operands("fork", 1)?;
                write!(self.text, " b{to} b{other}").map_err(|_| AllocError)?;
            }
        }
        if let Some(frame) = self.frames.last_mut() {
            frame.block = frame.block.saturating_add(1);
            frame.step = 0;
            frame.is_begun = false;
        }
        Ok(())
    }

    // How many values an edge to the block forwards.
    fn forwarded_count(&mut self, to: usize) -> usize {
        let Some(frame) = self.frames.last() else {
            return 0;
        };
        let count = frame.plan.arguments(to);
        if !self.is_hostile {
            return count;
        }
        match self.dice.below(8) {
            0 => count.saturating_sub(1),
            1 => count.saturating_add(1),
            _ => count,
        }
    }

    // Writes an edge to the block.
    fn write_edge(&mut self, to: usize) -> Result<(), AllocError> {
        write!(self.text, " b{to}(").map_err(|_| AllocError)?;
        for place in 0..self.forwarded_count(to) {
            let before = if place > 0 { ", " } else { "" };
            let name = self.value()?;
            write!(self.text, "{before}{name}").map_err(|_| AllocError)?;
        }
        self.text.push_str(")")
    }

    // A value that a use may name here.
    fn value(&mut self) -> Result<RandomName, AllocError> {
        let names = if self.is_hostile && !self.dice.once_in(2) {
            self.all_names()?
        } else {
            self.names_before()?
        };
        // Each block begins with a constant, so there is a value.
        Ok(
            self.dice
                .one_of(&names)
                .unwrap_or(RandomName::Result(0, 0, 0)),
        )
    }

    // The values that are defined before what comes next, on every path to it.
    fn names_before(&self) -> Result<Vec<RandomName>, AllocError> {
        let mut names = Vec::new(self.alloc);
        for frame in &self.frames {
            push_names(&mut names, &frame.plan, frame.block, frame.step)?;
            for block in &frame.plan.dominators(self.alloc, frame.block)? {
                push_names(&mut names, &frame.plan, *block, usize::MAX)?;
            }
        }
        Ok(names)
    }

    // The values of all regions that are open or left.
    fn all_names(&self) -> Result<Vec<RandomName>, AllocError> {
        let mut names = Vec::new(self.alloc);
        names.extend_from_slice(&self.left)?;
        for frame in &self.frames {
            push_all_names(&mut names, &frame.plan)?;
        }
        Ok(names)
    }
}
