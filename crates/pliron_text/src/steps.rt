//! What is in a tree, in the order of its text.
ghost use Rattle.std.specs.Prelude.{IfOk, IfSome};
ghost use Rattle.pliron_core.specs.Tree.{IsLive, IsBlock, IsRegion};
ghost use Rattle.pliron_text.specs.Printing.{AreStepsLive, IsStepLive};

use pliron_core::{BasicBlock, Context, Operation, Ptr, Region, Value};
use std::alloc::{AllocError, Global};

/// What a text writes next.
#[derive(Clone, Copy, Drop)]
pub enum OutlineStep {
    Operation(Ptr<Operation>),
    /// The start of a region.
    Region(Ptr<Region>),
    Block(Ptr<BasicBlock>),
    /// The end of a region.
    End(Ptr<Region>),
}

/// How many values and blocks the steps make.
#[derive(Clone, Copy)]
pub struct Extent {
    pub values: usize,
    pub blocks: usize,
    /// No greater than the handle of the first result of an operation or the first argument of a block.
    pub first_value: u64,
    /// No greater than the handle of a block.
    pub first_block: u64,
}

/// The steps in order, and how much they make.
#[derive(Drop)]
pub struct Outline {
    pub steps: Vec<OutlineStep>,
    pub extent: Extent,
}

impl Outline {
    /// All that is in an operation, from the operation on.
    ///
    /// Asks that the operation is live (`is_live` tests it). Errors: allocation failure. Cost: one step for
    /// each operation, block and region, where no operation has more than one region.
    pub fn of(alloc: Global, root: Ptr<Operation>, ctx: &Context) -> Result<Outline, AllocError>
        requires { IsLive ctx.now.tree root }
        ensures { IfOk result (λ outline. AreStepsLive ctx.now.tree outline.steps.items) }
    {
        let mut steps = Vec::new(alloc);
        let mut extent = Extent::none();
        let mut next = Some(OutlineStep::Operation(root));
        // No tree has as many steps.
        for _ in 0..u64::MAX {
            match next {
                Some(step) => {
                    steps.push(step)?;
                    extent.add(ctx, &step);
                    next = step_after(root, ctx, &step);
                }
                None => break,
            }
        }
        Ok(Outline { steps, extent })
    }
}

impl Extent {
    fn none() -> Extent {
        Extent {
            values: 0,
            blocks: 0,
            first_value: u64::MAX,
            first_block: u64::MAX,
        }
    }

    // Counts what the step makes.
    #[inline(always)]
    fn add(&mut self, ctx: &Context, step: &OutlineStep)
        requires { IsStepLive ctx.now.tree step.now }
    {
        match step {
            OutlineStep::Operation(op) => {
                let results = op.num_result(ctx);
                if results > 0 {
                    self.add_values(results, op.get_result(ctx, 0));
                }
            }
            OutlineStep::Block(block) => {
                self.blocks = self.blocks.saturating_add(1);
                self.first_block = self.first_block.min(block.key());
                let arguments = block.num_argument(ctx);
                if arguments > 0 {
                    self.add_values(arguments, block.get_argument(ctx, 0));
                }
            }
            OutlineStep::Region(_) | OutlineStep::End(_) => {}
        }
    }

    #[inline(always)]
    fn add_values(&mut self, count: usize, first: Value) {
        self.values = self.values.saturating_add(count);
        self.first_value = self.first_value.min(first.key());
    }
}

// What is written after this step.
#[inline(always)]
fn step_after(root: Ptr<Operation>, ctx: &Context, step: &OutlineStep) -> Option<OutlineStep>
    requires { IsStepLive ctx.now.tree step.now }
    ensures { IfSome result (λ next. IsStepLive ctx.now.tree next) }
{
    match step {
        OutlineStep::Operation(op) => {
            if op.num_region(ctx) > 0 {
                Some(OutlineStep::Region(op.get_region(ctx, 0)))
            } else {
                after_operation(root, ctx, *op)
            }
        }
        OutlineStep::Region(region) => match region.get_head(ctx) {
            Some(block) => Some(OutlineStep::Block(block)),
            None => Some(OutlineStep::End(*region)),
        },
        OutlineStep::Block(block) => match block.get_head(ctx) {
            Some(op) => Some(OutlineStep::Operation(op)),
            None => after_block(ctx, *block),
        },
        OutlineStep::End(region) => after_region(root, ctx, *region),
    }
}

#[inline(always)]
fn after_operation(root: Ptr<Operation>, ctx: &Context, op: Ptr<Operation>) -> Option<OutlineStep>
    requires { IsLive ctx.now.tree op }
    ensures { IfSome result (λ next. IsStepLive ctx.now.tree next) }
{
    if op == root {
        return None;
    }
    match op.get_next(ctx) {
        Some(next) => Some(OutlineStep::Operation(next)),
        None => after_block(ctx, op.get_parent_block(ctx)?),
    }
}

#[inline(never)]
fn after_block(ctx: &Context, block: Ptr<BasicBlock>) -> Option<OutlineStep>
    requires { IsBlock ctx.now.tree block }
    ensures { IfSome result (λ next. IsStepLive ctx.now.tree next) }
{
    match block.get_next(ctx) {
        Some(next) => Some(OutlineStep::Block(next)),
        None => Some(OutlineStep::End(block.get_parent_region(ctx)?)),
    }
}

#[inline(never)]
fn after_region(root: Ptr<Operation>, ctx: &Context, region: Ptr<Region>) -> Option<OutlineStep>
    requires { IsRegion ctx.now.tree region }
    ensures { IfSome result (λ next. IsStepLive ctx.now.tree next) }
{
    let op = region.get_parent_op(ctx);
    let mut is_past = false;
    for i in 0..op.num_region(ctx) {
        let next = op.get_region(ctx, i);
        if is_past {
            return Some(OutlineStep::Region(next));
        }
        is_past = next == region;
    }
    after_operation(root, ctx, op)
}
