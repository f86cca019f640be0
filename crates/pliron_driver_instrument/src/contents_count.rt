//! How much is inside an operation.
ghost use Rattle.pliron_core.specs.Tree.{IsLive, IsRegion};

use pliron_core::{Contents, Context, Operation, Ptr, Region};

/// How much is inside operations: these themselves and the operations inside them, blocks, arguments of blocks, and
/// edges.
#[derive(Clone, Copy, Debug, Drop, PartialEq, Eq)]
pub struct ContentsCount {
    pub operations: usize,
    pub blocks: usize,
    pub arguments: usize,
    pub edges: usize,
}

impl ContentsCount {
    /// Nothing. Cost: constant.
    pub(crate) fn none() -> Self {
        ContentsCount {
            operations: 0,
            blocks: 0,
            arguments: 0,
            edges: 0,
        }
    }

    /// Adds what the others count. Cost: constant.
    pub(crate) fn add(&mut self, others: &ContentsCount) {
        self.operations = self.operations.saturating_add(others.operations);
        self.blocks = self.blocks.saturating_add(others.blocks);
        self.arguments = self.arguments.saturating_add(others.arguments);
        self.edges = self.edges.saturating_add(others.edges);
    }

    // Adds the blocks of a region and their arguments.
    fn add_region(&mut self, region: Ptr<Region>, ctx: &Context)
        requires { IsRegion ctx.now.tree region }
    {
        let mut at = region.get_head(ctx);
        for _ in 0..u64::MAX {
            let Some(block) = at else {
                return;
            };
            self.blocks = self.blocks.saturating_add(1);
            self.arguments = self.arguments.saturating_add(block.num_argument(ctx));
            at = block.get_next(ctx);
        }
    }

    // Adds an operation with its edges, and its blocks with their arguments.
    fn add_operation(&mut self, op: Ptr<Operation>, ctx: &Context)
        requires { IsLive ctx.now.tree op }
    {
        self.operations = self.operations.saturating_add(1);
        self.edges = self.edges.saturating_add(op.num_successor(ctx));
        for i in 0..op.num_region(ctx) {
            self.add_region(op.get_region(ctx, i), ctx);
        }
    }

    /// The counts of the operation and all that is inside it. Asks that it is live (`is_live` tests it). Cost: one step
    /// for each operation, region and block.
    pub(crate) fn of(op: Ptr<Operation>, ctx: &Context) -> Self
        requires { IsLive ctx.now.tree op }
    {
        let mut counts = ContentsCount::none();
        counts.add_operation(op, ctx);
        for inner in Contents::new(op, ctx) {
            if inner.is_live(ctx) {
                counts.add_operation(inner, ctx);
            }
        }
        counts
    }
}
