//! What is in blocks, at any depth.
ghost use Rattle.std.specs.Prelude.{◌≡◌, ◌++◌, ◌↔◌, ℕ, IfOk, OnOk, IsOkUnless};
ghost use Rattle.std.specs.List.{flat_map};
ghost use Rattle.pliron_core.specs.Tree.{In, IsDistinct, IsLive, IsBlock, IsRegion, results_of, layout_of, arguments_of};
ghost use Rattle.pliron_core.specs.Walks.{preorder};
ghost use Rattle.pliron_opt_cfg.specs.Internal.Contents.{contents_of, contents_in, blocks_directly_in, values_made_by};

use indexmap::IndexSet;
use pliron_core::{BasicBlock, Context, Operation, Ptr, Region, Value};
use pliron_laws::OptError;
use pliron_laws::reads::{all_operations, push_layout, push_layouts};
use std::alloc::Global;

// Adds the operation and its contents.
fn push_contents(
    ctx: &Context,
    root: Ptr<Operation>,
    ops: &mut Vec<Ptr<Operation>>,
) -> Result<(), OptError>
    requires { IsLive ctx.now.tree root }
    ensures items { OnOk result (ops.new.items ≡ ops.old.items ++ preorder ctx.now.tree root) }
    ensures memory { IsOkUnless result OptError.Memory }
{
    ctx.well_formed();
    let mut at = Some(root);
    while let Some(op) = at {
        ops.push(op)?;
        at = op.next_in_preorder(root, ctx);
    }
    Ok(())
}

// Adds the operations in the block.
fn push_block_contents(
    alloc: Global,
    ctx: &Context,
    block: Ptr<BasicBlock>,
    ops: &mut Vec<Ptr<Operation>>,
) -> Result<(), OptError>
    requires { IsBlock ctx.now.tree block }
    ensures items { OnOk result (ops.new.items ≡ ops.old.items ++ contents_of ctx.now.tree block) }
    ensures memory { IsOkUnless result OptError.Memory }
{
    ctx.well_formed();
    let direct = all_operations(alloc, block, ctx)?;
    for op in &direct {
        push_contents(ctx, *op, ops)?;
    }
    Ok(())
}

// The operations in these blocks, at any depth.
pub(crate) fn operations_in(
    alloc: Global,
    ctx: &Context,
    blocks: &[Ptr<BasicBlock>],
) -> Result<Vec<Ptr<Operation>>, OptError>
    requires { (b : ℕ) → In b blocks.now → IsBlock ctx.now.tree b }
    ensures items { IfOk result (λ r. r.items ≡ contents_in ctx.now.tree blocks.now) }
    ensures memory { IsOkUnless result OptError.Memory }
{
    let mut ops = Vec::new(alloc);
    for block in blocks {
        push_block_contents(alloc, ctx, *block, &mut ops)?;
    }
    Ok(ops)
}

// Adds the blocks directly in these operations.
pub(crate) fn push_inner_blocks(
    ctx: &Context,
    ops: &[Ptr<Operation>],
    blocks: &mut Vec<Ptr<BasicBlock>>,
) -> Result<(), OptError>
    requires { (k : ℕ) → In k ops.now → IsLive ctx.now.tree k }
    ensures items { OnOk result (blocks.new.items ≡ blocks.old.items ++ flat_map
        (λ k. blocks_directly_in ctx.now.tree k) ops.now) }
    ensures memory { IsOkUnless result OptError.Memory }
{
    for op in ops {
        push_layouts(*op, ctx, blocks)?;
    }
    Ok(())
}

// Adds the results of the operation.
fn push_results(ctx: &Context, op: Ptr<Operation>, values: &mut Vec<Value>) -> Result<(), OptError>
    requires { IsLive ctx.now.tree op }
    ensures items { OnOk result (values.new.items ≡ values.old.items ++ results_of ctx.now.tree op) }
    ensures memory { IsOkUnless result OptError.Memory }
{
    for i in 0..op.num_result(ctx) {
        values.push(op.get_result(ctx, i))?;
    }
    Ok(())
}

// Adds the arguments of the block.
fn push_arguments(
    ctx: &Context,
    block: Ptr<BasicBlock>,
    values: &mut Vec<Value>,
) -> Result<(), OptError>
    requires { IsBlock ctx.now.tree block }
    ensures items { OnOk result (values.new.items ≡ values.old.items ++ arguments_of ctx.now.tree block) }
    ensures memory { IsOkUnless result OptError.Memory }
{
    for i in 0..block.num_argument(ctx) {
        values.push(block.get_argument(ctx, i))?;
    }
    Ok(())
}

// The values that these operations and these blocks define.
pub(crate) fn values_made(
    alloc: Global,
    ctx: &Context,
    ops: &[Ptr<Operation>],
    blocks: &[Ptr<BasicBlock>],
) -> Result<Vec<Value>, OptError>
    requires ops { (k : ℕ) → In k ops.now → IsLive ctx.now.tree k }
    requires blocks { (b : ℕ) → In b blocks.now → IsBlock ctx.now.tree b }
    ensures items { IfOk result (λ r. r.items ≡ values_made_by ctx.now.tree ops.now blocks.now) }
    ensures memory { IsOkUnless result OptError.Memory }
{
    let mut values = Vec::new(alloc);
    for op in ops {
        push_results(ctx, *op, &mut values)?;
    }
    for block in blocks {
        push_arguments(ctx, *block, &mut values)?;
    }
    Ok(values)
}

// The operations as a set.
pub(crate) fn set_of(
    alloc: Global,
    ops: &[Ptr<Operation>],
) -> Result<IndexSet<Ptr<Operation>>, OptError>
    ensures keys { IfOk result (λ s. (k : ℕ) → In k s.keys ↔ In k ops.now) }
    ensures memory { IsOkUnless result OptError.Memory }
{
    let mut set = IndexSet::new(alloc);
    for op in ops {
        set.insert(*op)?;
    }
    Ok(set)
}

// The blocks of the region that are not among these, each once.
pub(crate) fn blocks_left(
    alloc: Global,
    ctx: &Context,
    region: Ptr<Region>,
    reached: &IndexSet<Ptr<BasicBlock>>,
) -> Result<Vec<Ptr<BasicBlock>>, OptError>
    requires { IsRegion ctx.now.tree region }
    ensures members { IfOk result (λ r. (b : ℕ) → In b r.items ↔ (In b (layout_of ctx.now.tree region)
        × (In b reached.now.keys → ⊥))) }
    ensures distinct { IfOk result (λ r. IsDistinct r.items) }
    ensures memory { IsOkUnless result OptError.Memory }
{
    ctx.well_formed();
    let mut all = Vec::new(alloc);
    push_layout(region, ctx, &mut all)?;
    let mut left = Vec::new(alloc);
    for block in &all {
        if !reached.contains(block) {
            left.push(*block)?;
        }
    }
    Ok(left)
}

// The blocks as a set.
pub(crate) fn set_of_blocks(
    alloc: Global,
    blocks: &[Ptr<BasicBlock>],
) -> Result<IndexSet<Ptr<BasicBlock>>, OptError>
    ensures keys { IfOk result (λ s. (b : ℕ) → In b s.keys ↔ In b blocks.now) }
    ensures memory { IsOkUnless result OptError.Memory }
{
    let mut set = IndexSet::new(alloc);
    for block in blocks {
        set.insert(*block)?;
    }
    Ok(set)
}
