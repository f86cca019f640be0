//! From a tree to text.
//!
//! The number of a printed value is in a table indexed by its handle, from the least printed one on, or in a map where
//! its handle is further away. Digits come from `itoa`.
ghost use Rattle.std.specs.Prelude.{◌≡◌, IsOkUnless};
ghost use Rattle.pliron_core.specs.Tree.{IsLive, IsBlock, IsRegion};
ghost use Rattle.pliron_text.specs.Printing.{AreStepsLive, IsStepLive};

mod numbers;

use self::numbers::Numbers;
use crate::grammar::{Body, Grammar, Tail};
use crate::steps::{Outline, OutlineStep};
use itoa::Buffer;
use pliron_core::{AttrObj, BasicBlock, Context, Operation, Ptr, Region, Value};
use pliron_laws::OptError;
use std::alloc::{AllocError, Global};

/// What was printed last.
#[derive(Clone, Copy, PartialEq, Eq)]
enum Last {
    Nothing,
    Opening,
    Block,
    Operation,
}

/// What is printed so far, and the numbers of values and blocks.
#[derive(Drop)]
struct Printer {
    text: String,
    values: Numbers,
    blocks: Numbers,
}

/// The number that an operation has as its first attribute, if it has one. Asks that it is live (`is_live`
/// tests it). Cost: constant.
pub fn number_of(op: Ptr<Operation>, ctx: &Context) -> Option<i128>
    requires { IsLive ctx.now.tree op }
{
    let head = op.head(ctx);
    if head.attrs.is_empty() {
        return None;
    }
    match head.attrs.get(0) {
        AttrObj::Int(number) => Some(*number),
        AttrObj::Text(_) => None,
    }
}

// Whether the names of values begin anew at the operation.
#[inline(always)]
fn begins_names<K: Grammar>(op: Ptr<Operation>, ctx: &Context) -> bool
    requires { IsLive ctx.now.tree op }
{
    match K::from_number(op.head(ctx).kind) {
        Some(kind) => kind.body() == Body::Function,
        None => false,
    }
}

/// The text of the operation in one line. Blocks are `b0`, `b1`, .. in each region, and values are `v0`, `v1`, .. from
/// each operation on at which names begin anew. An operation of no kind of the dialect has the word `_`, and so have
/// values and blocks that are outside what is printed.
///
/// Asks that the operation is live. Errors: allocation failure. Cost: linear in the tree.
pub fn print_operation<K: Grammar>(
    alloc: Global,
    root: Ptr<Operation>,
    ctx: &Context,
) -> Result<String, OptError>
    requires { IsLive ctx.now.tree root }
    ensures { IsOkUnless result OptError.Memory }
{
    let outline = Outline::of(alloc, root, ctx)?;
    let mut printer = Printer::new(alloc, &outline)?;
    printer.number::<K>(ctx, &outline.steps)?;
    printer.print::<K>(ctx, &outline.steps)?;
    Ok(printer.text)
}

impl Printer {
    // A printer with room for a text of the usual length, and for twice as many handles as there are values and blocks,
    // since some of those between may be erased. Errors: allocation failure.
    fn new(alloc: Global, outline: &Outline) -> Result<Printer, AllocError> {
        let extent = outline.extent;
        let letters = outline.steps.len().saturating_mul(24);
        let values = extent.values.saturating_mul(2);
        let blocks = extent.blocks.saturating_mul(2);
        Ok(Printer {
            text: String::with_capacity(alloc, letters)?,
            values: Numbers::new(alloc, extent.first_value, values)?,
            blocks: Numbers::new(alloc, extent.first_block, blocks)?,
        })
    }

    // Gives each value and each block its number.
    fn number<K: Grammar>(&mut self, ctx: &Context, steps: &[OutlineStep]) -> Result<(), AllocError>
        requires { AreStepsLive ctx.now.tree steps.now }
    {
        let mut next: usize = 0;
        for step in steps {
            next = self.number_step::<K>(ctx, step, next)?;
        }
        Ok(())
    }

    // Gives what the step makes its numbers, where `next` is the next number of a value, and answers
    // the number after them.
    #[inline(always)]
    fn number_step<K: Grammar>(
        &mut self,
        ctx: &Context,
        step: &OutlineStep,
        next: usize,
    ) -> Result<usize, AllocError>
        requires { IsStepLive ctx.now.tree step.now }
    {
        match step {
            OutlineStep::Operation(op) => {
                let first = if begins_names::<K>(*op, ctx) { 0 } else { next };
                self.number_results(ctx, *op, first)
            }
            OutlineStep::Region(region) => {
                self.number_blocks(ctx, *region)?;
                Ok(next)
            }
            OutlineStep::Block(block) => self.number_arguments(ctx, *block, next),
            OutlineStep::End(_) => Ok(next),
        }
    }

    #[inline(always)]
    fn number_results(
        &mut self,
        ctx: &Context,
        op: Ptr<Operation>,
        first: usize,
    ) -> Result<usize, AllocError>
        requires { IsLive ctx.now.tree op }
    {
        for i in 0..op.num_result(ctx) {
            self.values
                .insert(op.get_result(ctx, i).key(), first.saturating_add(i))?;
        }
        Ok(first.saturating_add(op.num_result(ctx)))
    }

    fn number_arguments(
        &mut self,
        ctx: &Context,
        block: Ptr<BasicBlock>,
        first: usize,
    ) -> Result<usize, AllocError>
        requires { IsBlock ctx.now.tree block }
    {
        for i in 0..block.num_argument(ctx) {
            self.values
                .insert(block.get_argument(ctx, i).key(), first.saturating_add(i))?;
        }
        Ok(first.saturating_add(block.num_argument(ctx)))
    }

    fn number_blocks(&mut self, ctx: &Context, region: Ptr<Region>) -> Result<(), AllocError>
        requires { IsRegion ctx.now.tree region }
    {
        let mut next = region.get_head(ctx);
        // No region has as many blocks.
        for number in 0..usize::MAX {
            match next {
                Some(block) => {
                    self.blocks.insert(block.key(), number)?;
                    next = block.get_next(ctx);
                }
                None => break,
            }
        }
        Ok(())
    }

    fn print<K: Grammar>(&mut self, ctx: &Context, steps: &[OutlineStep]) -> Result<(), AllocError>
        requires { AreStepsLive ctx.now.tree steps.now }
    {
        let mut last = Last::Nothing;
        for step in steps {
            last = self.print_step::<K>(ctx, step, &last)?;
        }
        Ok(())
    }

    // Prints what the step names, and what parts it from what was printed last.
    #[inline(always)]
    fn print_step<K: Grammar>(
        &mut self,
        ctx: &Context,
        step: &OutlineStep,
        last: &Last,
    ) -> Result<Last, AllocError>
        requires { IsStepLive ctx.now.tree step.now }
    {
        match step {
            OutlineStep::Operation(op) => {
                self.print_separator(last)?;
                self.operation::<K>(ctx, *op)?;
                Ok(Last::Operation)
            }
            OutlineStep::Region(_) => {
                self.text.push_str(" {")?;
                Ok(Last::Opening)
            }
            OutlineStep::Block(block) => {
                self.text.push_str(match last {
                    Last::Opening => " ",
                    _ => "; ",
                })?;
                self.block(ctx, *block)?;
                Ok(Last::Block)
            }
            OutlineStep::End(_) => {
                self.text.push_str(" }")?;
                Ok(Last::Operation)
            }
        }
    }

    // What parts an operation from what was printed last.
    #[inline(always)]
    fn print_separator(&mut self, last: &Last) -> Result<(), AllocError> {
        match last {
            Last::Nothing => Ok(()),
            Last::Operation => {
                self.text.push(';')?;
                self.text.push(' ')
            }
            Last::Opening | Last::Block => self.text.push(' '),
        }
    }

    // A value's name. A value outside what is printed is written `_`.
    #[inline(always)]
    fn value(&mut self, value: Value) -> Result<(), AllocError> {
        match self.values.get(value.key()) {
            Some(number) => self.name('v', number),
            None => self.text.push('_'),
        }
    }

    // A block's name. A block outside what is printed is written `_`.
    fn block_name(&mut self, block: Ptr<BasicBlock>) -> Result<(), AllocError> {
        match self.blocks.get(block.key()) {
            Some(number) => self.name('b', number),
            None => self.text.push('_'),
        }
    }

    // The letter and the number.
    #[inline(always)]
    fn name(&mut self, letter: char, number: usize) -> Result<(), AllocError> {
        self.text.push(letter)?;
        self.text.push_str(Buffer::new().format(number))
    }

    // A comma and a blank, if it is not the first item.
    #[inline(always)]
    fn comma(&mut self, is_first: bool) -> Result<(), AllocError> {
        if is_first {
            return Ok(());
        }
        self.text.push(',')?;
        self.text.push(' ')
    }

    // A block's name and arguments.
    fn block(&mut self, ctx: &Context, block: Ptr<BasicBlock>) -> Result<(), AllocError>
        requires { IsBlock ctx.now.tree block }
    {
        self.block_name(block)?;
        self.text.push('(')?;
        for i in 0..block.num_argument(ctx) {
            self.comma(i == 0)?;
            self.value(block.get_argument(ctx, i))?;
        }
        self.text.push_str("):")
    }

    // An operation up to its regions.
    #[inline(always)]
    fn operation<K: Grammar>(&mut self, ctx: &Context, op: Ptr<Operation>) -> Result<(), AllocError>
        requires { IsLive ctx.now.tree op }
    {
        self.results(ctx, op)?;
        let tail = match K::from_number(op.head(ctx).kind) {
            Some(kind) => {
                self.text.push_str(kind.word())?;
                kind.tail()
            }
            None => {
                self.text.push('_')?;
                Tail::AnyOperands
            }
        };
        self.tail(ctx, op, tail)
    }

    // What is behind the word of an operation. One whose attribute is no number has the names of its operands, and then
    // those of its successors.
    #[inline(always)]
    fn tail(&mut self, ctx: &Context, op: Ptr<Operation>, tail: Tail) -> Result<(), AllocError>
        requires { IsLive ctx.now.tree op }
    {
        let number = match tail {
            Tail::Number | Tail::TwoEdges => number_of(op, ctx),
            _ => None,
        };
        match (tail, number) {
            (Tail::Number, Some(number)) => self.number_behind(number),
            (Tail::Edge, _) => self.edges(ctx, op, 0, op.num_operand(ctx)),
            (Tail::TwoEdges, Some(number)) => {
                let first = usize::try_from(number).unwrap_or(0);
                self.operands(ctx, op, 1)?;
                self.edges(ctx, op, 1, first.saturating_add(1))
            }
            _ => {
                self.operands(ctx, op, op.num_operand(ctx))?;
                self.successors(ctx, op)
            }
        }
    }

    // A blank and the number.
    #[inline(always)]
    fn number_behind(&mut self, number: i128) -> Result<(), AllocError> {
        self.text.push(' ')?;
        self.text.push_str(Buffer::new().format(number))
    }

    // The results of an operation, and an equals sign behind them.
    #[inline(always)]
    fn results(&mut self, ctx: &Context, op: Ptr<Operation>) -> Result<(), AllocError>
        requires { IsLive ctx.now.tree op }
    {
        let count = op.num_result(ctx);
        for i in 0..count {
            self.comma(i == 0)?;
            self.value(op.get_result(ctx, i))?;
        }
        if count == 0 {
            return Ok(());
        }
        self.text.push_str(" = ")
    }

    // The operands before this index, with a blank before each.
    #[inline(always)]
    fn operands(&mut self, ctx: &Context, op: Ptr<Operation>, end: usize) -> Result<(), AllocError>
        requires { IsLive ctx.now.tree op }
    {
        for i in 0..end.min(op.num_operand(ctx)) {
            self.text.push(' ')?;
            self.value(op.get_operand(ctx, i))?;
        }
        Ok(())
    }

    // The successors, with a blank before each.
    #[inline(always)]
    fn successors(&mut self, ctx: &Context, op: Ptr<Operation>) -> Result<(), AllocError>
        requires { IsLive ctx.now.tree op }
    {
        for i in 0..op.num_successor(ctx) {
            self.text.push(' ')?;
            self.block_name(op.get_successor(ctx, i))?;
        }
        Ok(())
    }

    // The successors, the first with the operands from `start` to `cut`, the others with those from
    // there on.
    fn edges(
        &mut self,
        ctx: &Context,
        op: Ptr<Operation>,
        start: usize,
        cut: usize,
    ) -> Result<(), AllocError>
        requires { IsLive ctx.now.tree op }
    {
        let count = op.num_operand(ctx);
        for i in 0..op.num_successor(ctx) {
            self.text.push(' ')?;
            self.block_name(op.get_successor(ctx, i))?;
            if i == 0 {
                self.print_forwarded(ctx, op, start, cut.min(count))?;
            } else {
                self.print_forwarded(ctx, op, cut, count)?;
            }
        }
        Ok(())
    }

    // The operands from `start` to `end`, in brackets.
    fn print_forwarded(
        &mut self,
        ctx: &Context,
        op: Ptr<Operation>,
        start: usize,
        end: usize,
    ) -> Result<(), AllocError>
        requires { IsLive ctx.now.tree op }
    {
        self.text.push('(')?;
        for i in start..end.min(op.num_operand(ctx)) {
            self.comma(i == start)?;
            self.value(op.get_operand(ctx, i))?;
        }
        self.text.push(')')
    }
}
