//! What is inside an operation before and after a run of a pass, and what the run rewrote.
ghost use Rattle.pliron_core.specs.Tree.{IsLive};

use crate::contents_count::ContentsCount;
use pliron_core::{BasicBlock, Contents, Context, Operation, Ptr, Value};
use pliron_laws::reads::push_layouts;
use std::alloc::{AllocError, Global};

/// What runs rewrote inside operations: as far as what is there before and after shows it, so what a run made and
/// erased again isn't counted.
#[derive(Clone, Copy, Debug, Drop, PartialEq, Eq)]
pub struct RewriteCounts {
    /// Operations that are live after a run, and weren't before it.
    pub made: usize,
    /// Operations that were live before a run, and aren't after it.
    pub erased: usize,
    /// Operations that are in another block after a run than before it.
    pub moved: usize,
    /// Operands of operations that are live before and after a run: those that are another value, or were taken out.
    pub operands: usize,
    /// Blocks that were live before a run, and aren't after it.
    pub blocks: usize,
    /// Arguments of blocks that were live before a run, and aren't after it.
    pub arguments: usize,
}

/// What was inside operations before runs and after them, and what the runs rewrote.
#[derive(Clone, Copy, Debug, Drop)]
pub struct ContentsComparison {
    pub before: ContentsCount,
    pub after: ContentsCount,
    pub rewrites: RewriteCounts,
}

/// An operation that was live before a run.
#[derive(Clone, Copy)]
struct OperationBefore {
    op: Ptr<Operation>,
    block: Option<Ptr<BasicBlock>>,
    /// How many operands it had.
    operands: usize,
}

/// What was inside an operation before a run, to be compared with what is there after it.
#[derive(Drop)]
pub struct Snapshot {
    counts: ContentsCount,
    operations: Vec<OperationBefore>,
    /// The operands of these operations, one list behind the other.
    operands: Vec<Value>,
    blocks: Vec<Ptr<BasicBlock>>,
    arguments: Vec<Value>,
}

impl RewriteCounts {
    // Nothing.
    fn none() -> Self {
        RewriteCounts {
            made: 0,
            erased: 0,
            moved: 0,
            operands: 0,
            blocks: 0,
            arguments: 0,
        }
    }

    // Adds what the others count.
    fn add(&mut self, others: &RewriteCounts) {
        self.made = self.made.saturating_add(others.made);
        self.erased = self.erased.saturating_add(others.erased);
        self.moved = self.moved.saturating_add(others.moved);
        self.operands = self.operands.saturating_add(others.operands);
        self.blocks = self.blocks.saturating_add(others.blocks);
        self.arguments = self.arguments.saturating_add(others.arguments);
    }

    // Adds what became of an operation that had these operands.
    fn add_operation(&mut self, before: &OperationBefore, operands: &[Value], ctx: &Context) {
        if !before.op.is_live(ctx) {
            self.erased = self.erased.saturating_add(1);
            return;
        }
        if before.op.get_parent_block(ctx) != before.block {
            self.moved = self.moved.saturating_add(1);
        }
        let changed = changed_operands(before.op, operands, ctx);
        self.operands = self.operands.saturating_add(changed);
    }
}

// How many operands of an operation are other values than these, or how many were taken out.
fn changed_operands(op: Ptr<Operation>, before: &[Value], ctx: &Context) -> usize
    requires { IsLive ctx.now.tree op }
{
    let count = op.num_operand(ctx);
    if count != before.len() {
        return before.len().abs_diff(count);
    }
    let mut changed: usize = 0;
    for i in 0..count {
        if op.get_operand(ctx, i) != before[i] {
            changed = changed.saturating_add(1);
        }
    }
    changed
}

impl ContentsComparison {
    /// Nothing was inside, and nothing was rewritten. Cost: constant.
    pub(crate) fn none() -> Self {
        ContentsComparison {
            before: ContentsCount::none(),
            after: ContentsCount::none(),
            rewrites: RewriteCounts::none(),
        }
    }

    /// Adds what the others count. Cost: constant.
    pub(crate) fn add(&mut self, others: &ContentsComparison) {
        self.before.add(&others.before);
        self.after.add(&others.after);
        self.rewrites.add(&others.rewrites);
    }
}

impl Snapshot {
    // Adds an operation with its operands and its blocks.
    fn add_operation(&mut self, op: Ptr<Operation>, ctx: &Context) -> Result<(), AllocError>
        requires { IsLive ctx.now.tree op }
    {
        let operands = op.num_operand(ctx);
        self.operations.push(OperationBefore {
            op,
            block: op.get_parent_block(ctx),
            operands,
        })?;
        for i in 0..operands {
            self.operands.push(op.get_operand(ctx, i))?;
        }
        push_layouts(op, ctx, &mut self.blocks)
    }

    // Adds the arguments of the blocks.
    fn add_arguments(&mut self, ctx: &Context) -> Result<(), AllocError> {
        for block in &self.blocks {
            if block.is_live(ctx) {
                for i in 0..block.num_argument(ctx) {
                    self.arguments.push(block.get_argument(ctx, i))?;
                }
            }
        }
        Ok(())
    }

    // Adds the operation and all that is inside it.
    fn add_all(&mut self, op: Ptr<Operation>, ctx: &Context) -> Result<(), AllocError>
        requires { IsLive ctx.now.tree op }
    {
        self.add_operation(op, ctx)?;
        for inner in Contents::new(op, ctx) {
            if inner.is_live(ctx) {
                self.add_operation(inner, ctx)?;
            }
        }
        self.add_arguments(ctx)
    }

    /// The operation and all that is inside it. Asks that it is live (`is_live` tests it). Errors: allocation failure.
    /// Cost: linear in all that.
    pub(crate) fn of(alloc: Global, op: Ptr<Operation>, ctx: &Context) -> Result<Self, AllocError>
        requires { IsLive ctx.now.tree op }
    {
        let mut snapshot = Snapshot {
            counts: ContentsCount::of(op, ctx),
            operations: Vec::new(alloc),
            operands: Vec::new(alloc),
            blocks: Vec::new(alloc),
            arguments: Vec::new(alloc),
        };
        snapshot.add_all(op, ctx)?;
        Ok(snapshot)
    }

    // What was rewritten since, where so much is inside the operation now.
    fn rewrites(&self, after: &ContentsCount, ctx: &Context) -> RewriteCounts {
        let mut rewrites = RewriteCounts::none();
        let mut operands = self.operands.as_slice();
        for before in &self.operations {
            let (own, others) = operands.split_at(before.operands.min(operands.len()));
            rewrites.add_operation(before, own, ctx);
            operands = others;
        }
        let kept = self.operations.len().saturating_sub(rewrites.erased);
        rewrites.made = after.operations.saturating_sub(kept);
        rewrites.blocks = self
            .blocks
            .iter()
            .filter(|block| !block.is_live(ctx))
            .count();
        rewrites.arguments = self
            .arguments
            .iter()
            .filter(|value| !value.is_live(ctx))
            .count();
        rewrites
    }

    /// What was inside the operation, what is there now, and what was rewritten. Asks that it is live (`is_live` tests
    /// it). Cost: linear in what was there and what is.
    pub(crate) fn compare(&self, op: Ptr<Operation>, ctx: &Context) -> ContentsComparison
        requires { IsLive ctx.now.tree op }
    {
        let after = ContentsCount::of(op, ctx);
        let rewrites = self.rewrites(&after, ctx);
        ContentsComparison {
            before: self.counts,
            after,
            rewrites,
        }
    }
}
