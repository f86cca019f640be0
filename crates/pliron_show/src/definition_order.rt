//! Values and blocks in the order in which the text of an operation defines them.
ghost use Rattle.pliron_core.specs.Tree.{IsLive};

use crate::shown::NameScopes;
use pliron_core::{BasicBlock, Context, Operation, Ptr, Value};
use pliron_laws::reads::{all_arguments, all_operations, all_results, push_layouts};
use std::alloc::{AllocError, Global};

/// Values and blocks in the order in which the text of an operation defines them.
#[derive(Drop)]
pub struct DefinitionOrder {
    /// The values that are defined in each operation at which names begin anew, and first those outside all.
    pub functions: Vec<Vec<Value>>,
    /// The blocks of each region, in the order in which regions open.
    pub regions: Vec<Vec<Ptr<BasicBlock>>>,
}

/// What is written next.
#[derive(Clone, Copy, Drop)]
enum TextItem {
    Operation(Ptr<Operation>),
    Block(Ptr<BasicBlock>),
}

/// What is yet to be written, the next one last.
#[derive(Drop)]
struct WaitingValue {
    items: Vec<TextItem>,
}

impl WaitingValue {
    // The operations come next, in order.
    fn push_operations(&mut self, operations: &[Ptr<Operation>]) -> Result<(), AllocError> {
        for op in operations.iter().rev() {
            self.items.push(TextItem::Operation(*op))?;
        }
        Ok(())
    }

    // The blocks come next, in order.
    fn push_blocks(&mut self, blocks: &[Ptr<BasicBlock>]) -> Result<(), AllocError> {
        for block in blocks.iter().rev() {
            self.items.push(TextItem::Block(*block))?;
        }
        Ok(())
    }
}

impl DefinitionOrder {
    // Adds values to the function that is written.
    fn add_values(&mut self, values: &[Value]) -> Result<(), AllocError> {
        if let Some(function) = self.functions.last_mut() {
            for value in values {
                function.push(*value)?;
            }
        }
        Ok(())
    }

    // Adds an operation; its blocks come next.
    fn add_operation<N: NameScopes>(
        &mut self,
        alloc: Global,
        ctx: &Context,
        op: Ptr<Operation>,
        waiting: &mut WaitingValue,
    ) -> Result<(), AllocError> {
        if !op.is_live(ctx) {
            return Ok(());
        }
        if N::begins_names(op, ctx) {
            self.functions.push(Vec::new(alloc))?;
        }
        let results = all_results(alloc, op, ctx)?;
        self.add_values(&results)?;
        if op.num_region(ctx) == 0 {
            return Ok(());
        }
        let mut blocks = Vec::new(alloc);
        push_layouts(op, ctx, &mut blocks)?;
        waiting.push_blocks(&blocks)?;
        self.regions.push(blocks)?;
        Ok(())
    }

    // Adds a block; its operations come next.
    fn add_block(
        &mut self,
        alloc: Global,
        ctx: &Context,
        block: Ptr<BasicBlock>,
        waiting: &mut WaitingValue,
    ) -> Result<(), AllocError> {
        if !block.is_live(ctx) {
            return Ok(());
        }
        let arguments = all_arguments(alloc, block, ctx)?;
        self.add_values(&arguments)?;
        let operations = all_operations(alloc, block, ctx)?;
        waiting.push_operations(&operations)
    }

    // Adds what comes next.
    fn add_item<N: NameScopes>(
        &mut self,
        alloc: Global,
        ctx: &Context,
        item: TextItem,
        waiting: &mut WaitingValue,
    ) -> Result<(), AllocError> {
        match item {
            TextItem::Operation(op) => self.add_operation::<N>(alloc, ctx, op, waiting),
            TextItem::Block(block) => self.add_block(alloc, ctx, block, waiting),
        }
    }

    /// What the text of the operation defines, in order. Errors: allocation failure. Cost: linear in the operation,
    /// where none inside has more than one region.
    pub fn of<N: NameScopes>(
        alloc: Global,
        root: Ptr<Operation>,
        ctx: &Context,
    ) -> Result<Self, AllocError> {
        let mut order = DefinitionOrder {
            functions: Vec::new(alloc),
            regions: Vec::new(alloc),
        };
        order.functions.push(Vec::new(alloc))?;
        let mut waiting = WaitingValue {
            items: Vec::new(alloc),
        };
        waiting.items.push(TextItem::Operation(root))?;
        // No tree has as many items.
        for _ in 0..u64::MAX {
            let Some(item) = waiting.items.pop() else {
                break;
            };
            order.add_item::<N>(alloc, ctx, item, &mut waiting)?;
        }
        Ok(order)
    }
}
