//! Headers of loops.
ghost use Rattle.std.specs.Prelude.{IsOkUnless};
ghost use Rattle.pliron_core.specs.Tree.{IsLive, IsRegion, IsBlock};
ghost use Rattle.pliron_laws.specs.Linked.{EdgesLast};
ghost use Rattle.pliron_graph_traversal.specs.Regions.{IsLawfulRegion};

use pliron_core::{BasicBlock, Context, Operation, Ptr, Region};
use pliron_graph_dominance::DominatorTree;
use pliron_laws::OptError;
use std::alloc::Global;

// The header of a loop, and the blocks of the loop that lead back to it.
#[derive(Drop)]
pub(crate) struct LoopHeader {
    pub(crate) block: Ptr<BasicBlock>,
    pub(crate) latches: Vec<Ptr<BasicBlock>>,
}

// The blocks that lead to this one, and that it dominates.
fn latches_of(
    alloc: Global,
    block: Ptr<BasicBlock>,
    tree: &DominatorTree<Ptr<BasicBlock>>,
    ctx: &Context,
) -> Result<Vec<Ptr<BasicBlock>>, OptError>
    requires { IsBlock ctx.now.tree block }
    ensures memory { IsOkUnless result OptError.Memory }
{
    let mut latches = Vec::new(alloc);
    for i in 0..block.num_use(ctx) {
        let (op, _) = block.get_use(ctx, i);
        if let Some(from) = op.get_parent_block(ctx) {
            if tree.dominates(&block, &from) {
                latches.push(from)?;
            }
        }
    }
    Ok(latches)
}

// Adds the headers of the region's loops; one that dominates another comes first.
fn add_headers(
    alloc: Global,
    region: Ptr<Region>,
    ctx: &Context,
    headers: &mut Vec<LoopHeader>,
) -> Result<(), OptError>
    requires { IsLawfulRegion ctx.now.tree region }
    ensures memory { IsOkUnless result OptError.Memory }
{
    ctx.well_formed();
    let tree = DominatorTree::new(alloc, ctx, &region)?;
    tree.well_formed();
    for number in 0..tree.count() {
        let block = tree.node_at(number);
        if block.is_live(ctx) {
            let latches = latches_of(alloc, block, &tree, ctx)?;
            if !latches.is_empty() {
                headers.push(LoopHeader { block, latches })?;
            }
        }
    }
    Ok(())
}

// Adds the headers of the loops in the regions of the operation.
fn add_headers_of(
    alloc: Global,
    op: Ptr<Operation>,
    ctx: &Context,
    headers: &mut Vec<LoopHeader>,
) -> Result<(), OptError>
    requires live { IsLive ctx.now.tree op }
    requires edges { EdgesLast ctx.now.tree op }
    ensures memory { IsOkUnless result OptError.Memory }
{
    ctx.well_formed();
    for i in 0..op.num_region(ctx) {
        add_headers(alloc, op.get_region(ctx, i), ctx, headers)?;
    }
    Ok(())
}

// The headers of the loops inside the operation.
pub(crate) fn headers_inside(
    alloc: Global,
    root: Ptr<Operation>,
    ctx: &Context,
) -> Result<Vec<LoopHeader>, OptError>
    requires live { IsLive ctx.now.tree root }
    requires edges { EdgesLast ctx.now.tree root }
    ensures memory { IsOkUnless result OptError.Memory }
{
    ctx.well_formed();
    let mut headers = Vec::new(alloc);
    let mut at = Some(root);
    while let Some(op) = at {
        add_headers_of(alloc, op, ctx, &mut headers)?;
        at = op.next_in_preorder(root, ctx);
    }
    Ok(headers)
}
