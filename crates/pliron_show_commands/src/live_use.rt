//! Which use keeps the unreachable blocks of a region from being removed.
ghost use Rattle.std.specs.Prelude.{◌≡◌, Some, IfOk, IfSome, slice_get};
ghost use Rattle.pliron_core.specs.Tree.{IsBlock, IsDefined, IsLive, IsRegion, operands_of};

use indexmap::IndexSet;
use pliron_core::{BasicBlock, Children, Contents, Context, Operation, Ptr, Region, Value};
use pliron_graph_traversal::DFSTraversal;
use pliron_laws::reads::{all_arguments, all_operations, all_results, push_layout, push_layouts};
use pliron_laws::{OptError, edges_last};
use std::alloc::{AllocError, Global};

/// A use of a value that is defined in an unreachable block of a region, by an operation outside all of these.
#[derive(Clone, Copy)]
pub(crate) struct LiveUse {
    pub value: Value,
    pub user: Ptr<Operation>,
    /// Which operand of the user the value is.
    pub index: usize,
}

/// The operations inside some blocks, however deep, and the values that are defined there.
#[derive(Drop)]
struct BlockContents {
    alloc: Global,
    operations: IndexSet<Ptr<Operation>>,
    values: Vec<Value>,
}

impl BlockContents {
    // Adds values.
    fn add_values(&mut self, values: &[Value]) -> Result<(), AllocError> {
        for value in values {
            self.values.push(*value)?;
        }
        Ok(())
    }

    // Adds an operation, and the arguments of its blocks.
    fn add_operation(&mut self, op: Ptr<Operation>, ctx: &Context) -> Result<(), AllocError> {
        if !op.is_live(ctx) {
            return Ok(());
        }
        self.operations.insert(op)?;
        let results = all_results(self.alloc, op, ctx)?;
        self.add_values(&results)?;
        let mut blocks = Vec::new(self.alloc);
        push_layouts(op, ctx, &mut blocks)?;
        for block in &blocks {
            if block.is_live(ctx) {
                let arguments = all_arguments(self.alloc, *block, ctx)?;
                self.add_values(&arguments)?;
            }
        }
        Ok(())
    }

    // Adds a block with all that is inside.
    fn add_block(&mut self, block: Ptr<BasicBlock>, ctx: &Context) -> Result<(), AllocError>
        requires { IsBlock ctx.now.tree block }
    {
        let arguments = all_arguments(self.alloc, block, ctx)?;
        self.add_values(&arguments)?;
        let operations = all_operations(self.alloc, block, ctx)?;
        for op in &operations {
            self.add_operation(*op, ctx)?;
            if op.is_live(ctx) {
                for inner in Contents::new(*op, ctx) {
                    self.add_operation(inner, ctx)?;
                }
            }
        }
        Ok(())
    }

    // A use of the value by another operation.
    fn other_use_of(&self, value: Value, ctx: &Context) -> Option<LiveUse>
        requires { IsDefined ctx.now.tree value }
        ensures { IfSome result (λ it. slice_get (operands_of ctx.now.tree it.user) it.index ≡ Some it.value) }
    {
        ctx.well_formed();
        for i in 0..value.num_use(ctx) {
            let (user, index) = value.get_use(ctx, i);
            if !self.operations.contains(&user) {
                return Some(LiveUse { value, user, index });
            }
        }
        None
    }

    // A use of one of the values by another operation.
    fn other_use(&self, ctx: &Context) -> Option<LiveUse>
        ensures { IfSome result (λ it. slice_get (operands_of ctx.now.tree it.user) it.index ≡ Some it.value) }
    {
        for value in &self.values {
            if value.is_live(ctx) {
                let found = self.other_use_of(*value, ctx);
                if found.is_some() {
                    return found;
                }
            }
        }
        None
    }
}

/// Operations that are yet to be visited.
#[derive(Drop)]
struct LiveUseSearch {
    alloc: Global,
    waiting: Vec<Ptr<Operation>>,
}

impl LiveUseSearch {
    // The operations of the block are to be visited, too.
    fn add_block(&mut self, block: Ptr<BasicBlock>, ctx: &Context) -> Result<(), AllocError> {
        if !block.is_live(ctx) {
            return Ok(());
        }
        let operations = all_operations(self.alloc, block, ctx)?;
        for op in operations.iter().rev() {
            self.waiting.push(*op)?;
        }
        Ok(())
    }

    // A use that keeps the unreachable blocks of this region from being removed. The region has these blocks.
    fn visit_blocks(
        &mut self,
        region: Ptr<Region>,
        blocks: &[Ptr<BasicBlock>],
        ctx: &Context,
    ) -> Result<Option<LiveUse>, OptError>
        requires { IsRegion ctx.now.tree region }
        ensures { IfOk result (λ found. IfSome found
            (λ it. slice_get (operands_of ctx.now.tree it.user) it.index ≡ Some it.value)) }
    {
        ctx.well_formed();
        if !edges_last(region.get_parent_op(ctx), ctx) {
            return Ok(None);
        }
        let search = DFSTraversal::new(self.alloc, ctx, &region)?;
        let mut cut_off = BlockContents {
            alloc: self.alloc,
            operations: IndexSet::new(self.alloc),
            values: Vec::new(self.alloc),
        };
        for block in blocks {
            if search.is_reached(block) {
                self.add_block(*block, ctx)?;
            } else if block.is_live(ctx) {
                cut_off.add_block(*block, ctx)?;
            }
        }
        Ok(cut_off.other_use(ctx))
    }

    // The same for this region; where definitions need not come before uses, its first block alone is visited.
    fn visit_region(
        &mut self,
        region: Ptr<Region>,
        ctx: &Context,
    ) -> Result<Option<LiveUse>, OptError>
        requires { IsRegion ctx.now.tree region }
        ensures { IfOk result (λ found. IfSome found
            (λ it. slice_get (operands_of ctx.now.tree it.user) it.index ≡ Some it.value)) }
    {
        let mut blocks = Vec::new(self.alloc);
        push_layout(region, ctx, &mut blocks)?;
        if region.has_ssa_dominance(ctx) {
            return self.visit_blocks(region, &blocks, ctx);
        }
        if let Some(first) = blocks.first() {
            self.add_block(*first, ctx)?;
        }
        Ok(None)
    }

    // The same for the regions of an operation.
    fn visit_op(&mut self, op: Ptr<Operation>, ctx: &Context) -> Result<Option<LiveUse>, OptError>
        requires { IsLive ctx.now.tree op }
        ensures { IfOk result (λ found. IfSome found
            (λ it. slice_get (operands_of ctx.now.tree it.user) it.index ≡ Some it.value)) }
    {
        for i in 0..op.num_region(ctx) {
            let found = self.visit_region(op.get_region(ctx, i), ctx)?;
            if found.is_some() {
                return Ok(found);
            }
        }
        Ok(None)
    }

    // The first such use that is found in the operations that wait.
    fn run(&mut self, ctx: &Context) -> Result<Option<LiveUse>, OptError>
        ensures { IfOk result (λ found. IfSome found
            (λ it. slice_get (operands_of ctx.now.tree it.user) it.index ≡ Some it.value)) }
    {
        // No tree has as many operations.
        for _ in 0..u64::MAX {
            let Some(op) = self.waiting.pop() else {
                return Ok(None);
            };
            if op.is_live(ctx) {
                let found = self.visit_op(op, ctx)?;
                if found.is_some() {
                    return Ok(found);
                }
            }
        }
        Ok(None)
    }
}

/// A use for which the simplification of control flow of the operation, or of one of those directly inside it, is
/// refused: the value is defined in an unreachable block of a region that it visits, and is this operand of an
/// operation in no unreachable block of that region. Asks that the operation is live (`is_live` tests it).
///
/// Errors: allocation failure. Cost: a look-up for each operation and use in unreachable blocks, and for each region
/// that is visited a step for all that is inside its parent operation.
pub(crate) fn find_live_use(
    alloc: Global,
    root: Ptr<Operation>,
    is_nested: bool,
    ctx: &Context,
) -> Result<Option<LiveUse>, OptError>
    requires { IsLive ctx.now.tree root }
    ensures { IfOk result (λ found. IfSome found
        (λ it. slice_get (operands_of ctx.now.tree it.user) it.index ≡ Some it.value)) }
{
    let mut search = LiveUseSearch {
        alloc,
        waiting: Vec::new(alloc),
    };
    if is_nested {
        for op in Children::new(root, ctx) {
            search.waiting.push(op)?;
        }
        search.waiting.reverse();
    } else {
        search.waiting.push(root)?;
    }
    search.run(ctx)
}
