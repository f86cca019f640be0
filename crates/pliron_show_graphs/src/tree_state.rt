//! What is live in a tree before a rewrite, to be compared with what is live after it.
ghost use Rattle.pliron_core.specs.Tree.{IsLive};

use pliron_core::{BasicBlock, Contents, Context, Operation, Ptr, Value};
use pliron_laws::OptError;
use pliron_laws::reads::{all_arguments, all_operands, all_results, push_layouts};
use std::alloc::{AllocError, Global};

/// An operation, as it was.
#[derive(Drop)]
pub struct OperationState {
    pub op: Ptr<Operation>,
    pub block: Option<Ptr<BasicBlock>>,
    /// The operation that held it.
    pub holder: Option<Ptr<Operation>>,
    pub operands: Vec<Value>,
    pub results: Vec<Value>,
    pub successors: Vec<Ptr<BasicBlock>>,
}

/// A block, as it was.
#[derive(Drop)]
pub struct BlockSnapshot {
    pub block: Ptr<BasicBlock>,
    /// The operation that held it.
    pub holder: Ptr<Operation>,
    pub arguments: Vec<Value>,
}

/// An operation and what it held, as these were.
#[derive(Drop)]
pub struct TreeState {
    pub operations: Vec<OperationState>,
    pub blocks: Vec<BlockSnapshot>,
}

// The successors of the operation.
fn all_successors(
    alloc: Global,
    op: Ptr<Operation>,
    ctx: &Context,
) -> Result<Vec<Ptr<BasicBlock>>, AllocError>
    requires { IsLive ctx.now.tree op }
{
    let mut successors = Vec::new(alloc);
    for index in 0..op.num_successor(ctx) {
        successors.push(op.get_successor(ctx, index))?;
    }
    Ok(successors)
}

// The operation as it is now.
fn operation_state(
    alloc: Global,
    op: Ptr<Operation>,
    ctx: &Context,
) -> Result<OperationState, OptError>
    requires { IsLive ctx.now.tree op }
{
    let operands = all_operands(alloc, op, ctx)?;
    let results = all_results(alloc, op, ctx)?;
    Ok(OperationState {
        op,
        block: op.get_parent_block(ctx),
        holder: op.get_parent_op(ctx),
        operands,
        results,
        successors: all_successors(alloc, op, ctx)?,
    })
}

impl TreeState {
    // Adds the operation and its blocks.
    fn add(&mut self, alloc: Global, op: Ptr<Operation>, ctx: &Context) -> Result<(), OptError>
        requires { IsLive ctx.now.tree op }
    {
        self.operations.push(operation_state(alloc, op, ctx)?)?;
        let mut blocks = Vec::new(alloc);
        push_layouts(op, ctx, &mut blocks)?;
        for block in &blocks {
            if block.is_live(ctx) {
                self.blocks.push(BlockSnapshot {
                    block: *block,
                    holder: op,
                    arguments: all_arguments(alloc, *block, ctx)?,
                })?;
            }
        }
        Ok(())
    }
}

/// The operation and what it holds, as these are now. Asks that it is live (`is_live` tests it). Errors: allocation
/// failure. Cost: linear in all that.
pub fn tree_state(alloc: Global, root: Ptr<Operation>, ctx: &Context) -> Result<TreeState, OptError>
    requires { IsLive ctx.now.tree root }
{
    let mut state = TreeState {
        operations: Vec::new(alloc),
        blocks: Vec::new(alloc),
    };
    state.add(alloc, root, ctx)?;
    for op in Contents::new(root, ctx) {
        if op.is_live(ctx) {
            state.add(alloc, op, ctx)?;
        }
    }
    Ok(state)
}
