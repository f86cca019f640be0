//! Listing what is inside an operation.
ghost use Rattle.std.specs.Prelude.{◌≡◌, ◌++◌, ◌∷◌, [], ℕ, OnOk, IfOk, IsTrue, map, reverse, IsOkUnless};
ghost use Rattle.std.specs.List.{flat_map};
ghost use Rattle.pliron_core.specs.Tree.{IsLive, IsBlock, IsRegion, In, arguments_of, body_of, layout_of, regions_of, results_of};
ghost use Rattle.pliron_opt_sccp.specs.Chain.{blocks_inside};
ghost use Rattle.pliron_opt_sccp.specs.declared.inside.Part.TheVariants.{Block as BlockOf, Operation as OperationOf};
ghost use Rattle.pliron_opt_sccp.specs.Inside.{IsPartLive, blocks_directly_in, defined_by, directly_in, values_in_preorder};
ghost use Rattle.pliron_opt_sccp.specs.Starting.{AddsKeys};

use indexmap::IndexSet;
use pliron_core::{BasicBlock, Context, Operation, Ptr, Region, Value};
use pliron_laws::OptError;
use std::alloc::Global;

// Adds the blocks of the region, in order.
fn list_region(
    region: Ptr<Region>,
    ctx: &Context,
    blocks: &mut Vec<Ptr<BasicBlock>>,
) -> Result<(), OptError>
    requires { IsRegion ctx.now.tree region }
    ensures ok { OnOk result (blocks.new.items ≡ blocks.old.items ++ layout_of ctx.now.tree region) }
    ensures memory { IsOkUnless result OptError.Memory }
{
    ctx.well_formed();
    let mut at = region.get_head(ctx);
    while let Some(block) = at {
        blocks.push(block)?;
        at = block.get_next(ctx);
    }
    Ok(())
}

// Adds the blocks of the operation's regions, in order. Mostly it has none.
#[inline(always)]
fn list_regions(
    op: Ptr<Operation>,
    ctx: &Context,
    blocks: &mut Vec<Ptr<BasicBlock>>,
) -> Result<(), OptError>
    requires { IsLive ctx.now.tree op }
    ensures ok { OnOk result (blocks.new.items ≡ blocks.old.items ++ blocks_directly_in ctx.now.tree op) }
    ensures memory { IsOkUnless result OptError.Memory }
{
    if op.num_region(ctx) == 0 {
        return Ok(());
    }
    list_each_region(op, ctx, blocks)
}

// Adds the blocks of each of the operation's regions, in order.
#[inline(never)]
fn list_each_region(
    op: Ptr<Operation>,
    ctx: &Context,
    blocks: &mut Vec<Ptr<BasicBlock>>,
) -> Result<(), OptError>
    requires { IsLive ctx.now.tree op }
    ensures ok { OnOk result (blocks.new.items ≡ blocks.old.items ++ blocks_directly_in ctx.now.tree op) }
    ensures memory { IsOkUnless result OptError.Memory }
{
    for i in 0..op.num_region(ctx) {
        list_region(op.get_region(ctx, i), ctx, blocks)?;
    }
    Ok(())
}

// Adds the blocks of the regions of the block's operations, in order.
fn list_body(
    block: Ptr<BasicBlock>,
    ctx: &Context,
    blocks: &mut Vec<Ptr<BasicBlock>>,
) -> Result<(), OptError>
    requires { IsBlock ctx.now.tree block }
    ensures ok { OnOk result (blocks.new.items ≡ blocks.old.items ++ flat_map (λ k. blocks_directly_in ctx.now.tree k)
        (body_of ctx.now.tree block)) }
    ensures memory { IsOkUnless result OptError.Memory }
{
    ctx.well_formed();
    let mut at = block.get_head(ctx);
    while let Some(op) = at {
        list_regions(op, ctx, blocks)?;
        at = op.get_next(ctx);
    }
    Ok(())
}

// Puts these on the stack, so that the first is popped first.
fn stack_up<T: Copy + Drop>(items: Vec<T>, stack: &mut Vec<T>) -> Result<(), OptError>
    ensures ok { OnOk result (stack.new.items ≡ stack.old.items ++ reverse items.items) }
    ensures memory { IsOkUnless result OptError.Memory }
{
    let mut rest = items;
    while let Some(item) = rest.pop() {
        stack.push(item)?;
    }
    Ok(())
}

// Puts the blocks of the operation's regions on the stack, so that the first is popped first.
fn stack_regions(
    alloc: Global,
    op: Ptr<Operation>,
    ctx: &Context,
    stack: &mut Vec<Ptr<BasicBlock>>,
) -> Result<(), OptError>
    requires { IsLive ctx.now.tree op }
    ensures ok { OnOk result (stack.new.items ≡ stack.old.items ++ reverse (blocks_directly_in ctx.now.tree op)) }
    ensures memory { IsOkUnless result OptError.Memory }
{
    let mut blocks = Vec::new(alloc);
    list_regions(op, ctx, &mut blocks)?;
    stack_up(blocks, stack)
}

// Puts the blocks of the regions of the block's operations on the stack, so that the first is popped
// first.
fn stack_body(
    alloc: Global,
    block: Ptr<BasicBlock>,
    ctx: &Context,
    stack: &mut Vec<Ptr<BasicBlock>>,
) -> Result<(), OptError>
    requires { IsBlock ctx.now.tree block }
    ensures ok { OnOk result (stack.new.items ≡ stack.old.items ++ reverse
        (flat_map (λ k. blocks_directly_in ctx.now.tree k) (body_of ctx.now.tree block))) }
    ensures memory { IsOkUnless result OptError.Memory }
{
    let mut blocks = Vec::new(alloc);
    list_body(block, ctx, &mut blocks)?;
    stack_up(blocks, stack)
}

/// The blocks inside the operation, at any depth, in pre-order: each is followed by those inside its
/// operations.
///
/// Asks that the operation is live. Errors: allocation failure. Cost: one step for each operation, block and
/// region inside it; the depth takes memory on a list alone.
pub fn all_blocks(
    alloc: Global,
    root: Ptr<Operation>,
    ctx: &Context,
) -> Result<Vec<Ptr<BasicBlock>>, OptError>
    requires { IsLive ctx.now.tree root }
    ensures ok { IfOk result (λ blocks. blocks.items ≡ blocks_inside ctx.now.tree root) }
    ensures memory { IsOkUnless result OptError.Memory }
{
    ctx.well_formed();
    let mut stack = Vec::new(alloc);
    stack_regions(alloc, root, ctx, &mut stack)?;
    let mut found = Vec::new(alloc);
    while let Some(block) = stack.pop() {
        found.push(block)?;
        stack_body(alloc, block, ctx, &mut stack)?;
    }
    Ok(found)
}

/// These blocks, each with a number.
///
/// Errors: allocation failure. Cost: one step for each.
pub fn block_numbers(
    alloc: Global,
    blocks: &[Ptr<BasicBlock>],
) -> Result<IndexSet<Ptr<BasicBlock>>, OptError>
    ensures ok { IfOk result (λ numbered. AddsKeys blocks.now [] numbered.keys) }
    ensures memory { IsOkUnless result OptError.Memory }
{
    let mut numbered = IndexSet::with_capacity(alloc, blocks.len())?;
    for i in 0..blocks.len() {
        add_block(blocks[i], &mut numbered)?;
    }
    Ok(numbered)
}

// One block more.
fn add_block(block: Ptr<BasicBlock>, blocks: &mut IndexSet<Ptr<BasicBlock>>) -> Result<(), OptError>
    ensures ok { OnOk result (AddsKeys (block ∷ []) blocks.old.keys blocks.new.keys) }
    ensures memory { IsOkUnless result OptError.Memory }
{
    blocks.insert(block)?;
    Ok(())
}

// One value more.
#[inline(always)]
fn add_value(value: Value, values: &mut IndexSet<Value>) -> Result<(), OptError>
    ensures ok { OnOk result (AddsKeys (value ∷ []) values.old.keys values.new.keys) }
    ensures memory { IsOkUnless result OptError.Memory }
{
    values.insert(value)?;
    Ok(())
}

// The operation's results more.
#[inline(always)]
fn add_results(
    op: Ptr<Operation>,
    ctx: &Context,
    values: &mut IndexSet<Value>,
) -> Result<(), OptError>
    requires { IsLive ctx.now.tree op }
    ensures ok { OnOk result (AddsKeys (results_of ctx.now.tree op) values.old.keys values.new.keys) }
    ensures memory { IsOkUnless result OptError.Memory }
{
    for i in 0..op.num_result(ctx) {
        add_value(op.get_result(ctx, i), values)?;
    }
    Ok(())
}

// The block's arguments more.
fn add_arguments(
    block: Ptr<BasicBlock>,
    ctx: &Context,
    values: &mut IndexSet<Value>,
) -> Result<(), OptError>
    requires { IsBlock ctx.now.tree block }
    ensures ok { OnOk result (AddsKeys (arguments_of ctx.now.tree block) values.old.keys values.new.keys) }
    ensures memory { IsOkUnless result OptError.Memory }
{
    for i in 0..block.num_argument(ctx) {
        add_value(block.get_argument(ctx, i), values)?;
    }
    Ok(())
}

/// A block or an operation.
#[derive(Clone, Copy)]
pub enum Part {
    Block(Ptr<BasicBlock>),
    Operation(Ptr<Operation>),
}

// The values that the block or operation defines more.
fn add_defined(part: &Part, ctx: &Context, values: &mut IndexSet<Value>) -> Result<(), OptError>
    requires { IsPartLive ctx.now.tree part.now }
    ensures ok { OnOk result (AddsKeys (defined_by ctx.now.tree part.now) values.old.keys values.new.keys) }
    ensures memory { IsOkUnless result OptError.Memory }
{
    match part {
        Part::Block(block) => add_arguments(*block, ctx, values),
        Part::Operation(op) => add_results(*op, ctx, values),
    }
}

// Adds the operations of the block, in order.
fn list_operations(
    block: Ptr<BasicBlock>,
    ctx: &Context,
    parts: &mut Vec<Part>,
) -> Result<(), OptError>
    requires { IsBlock ctx.now.tree block }
    ensures ok { OnOk result (parts.new.items ≡ parts.old.items ++ map (λ k. OperationOf k)
        (body_of ctx.now.tree block)) }
    ensures memory { IsOkUnless result OptError.Memory }
{
    ctx.well_formed();
    let mut at = block.get_head(ctx);
    while let Some(op) = at {
        parts.push(Part::Operation(op))?;
        at = op.get_next(ctx);
    }
    Ok(())
}

// Adds the blocks of the operation's regions, in order.
fn list_blocks(
    alloc: Global,
    op: Ptr<Operation>,
    ctx: &Context,
    parts: &mut Vec<Part>,
) -> Result<(), OptError>
    requires { IsLive ctx.now.tree op }
    ensures ok { OnOk result (parts.new.items ≡ parts.old.items ++ map (λ b. BlockOf b)
        (blocks_directly_in ctx.now.tree op)) }
    ensures memory { IsOkUnless result OptError.Memory }
{
    let mut blocks = Vec::new(alloc);
    list_regions(op, ctx, &mut blocks)?;
    for i in 0..blocks.len() {
        parts.push(Part::Block(blocks[i]))?;
    }
    Ok(())
}

// Puts what is directly inside the block or operation on the stack, so that the first is popped first.
#[inline(never)]
fn stack_contents(
    alloc: Global,
    part: &Part,
    ctx: &Context,
    stack: &mut Vec<Part>,
) -> Result<(), OptError>
    requires { IsPartLive ctx.now.tree part.now }
    ensures ok { OnOk result (stack.new.items ≡ stack.old.items ++ reverse (directly_in ctx.now.tree part.now)) }
    ensures memory { IsOkUnless result OptError.Memory }
{
    let mut parts = Vec::new(alloc);
    match part {
        Part::Block(block) => list_operations(*block, ctx, &mut parts)?,
        Part::Operation(op) => list_blocks(alloc, *op, ctx, &mut parts)?,
    }
    stack_up(parts, stack)
}

// Whether the block or operation is an operation without regions, so that nothing is inside it.
#[inline(always)]
fn is_leaf(part: &Part, ctx: &Context) -> bool
    requires { IsPartLive ctx.now.tree part.now }
    ensures { IsTrue result → directly_in ctx.now.tree part.now ≡ [] }
{
    match part {
        Part::Block(_) => false,
        Part::Operation(op) => op.num_region(ctx) == 0,
    }
}

// Puts what is directly inside the block or operation on the stack, so that the first is popped first.
#[inline(always)]
fn stack_inner(
    alloc: Global,
    part: &Part,
    ctx: &Context,
    stack: &mut Vec<Part>,
) -> Result<(), OptError>
    requires { IsPartLive ctx.now.tree part.now }
    ensures ok { OnOk result (stack.new.items ≡ stack.old.items ++ reverse (directly_in ctx.now.tree part.now)) }
    ensures memory { IsOkUnless result OptError.Memory }
{
    if is_leaf(part, ctx) {
        return Ok(());
    }
    stack_contents(alloc, part, ctx, stack)
}

// How many values the block lists, to make room for them.
fn count_in_block(block: Ptr<BasicBlock>, ctx: &Context) -> usize
    requires { IsBlock ctx.now.tree block }
{
    ctx.well_formed();
    let mut count = block.num_argument(ctx);
    let mut at = block.get_head(ctx);
    while let Some(op) = at {
        count = count.saturating_add(op.num_result(ctx));
        at = op.get_next(ctx);
    }
    count
}

/// How many values these blocks list, to make room for them.
///
/// Asks that the blocks are live. Cost: one step for each operation.
pub fn count_values(blocks: &[Ptr<BasicBlock>], ctx: &Context) -> usize
    requires { (b : ℕ) → In b blocks.now → IsBlock ctx.now.tree b }
{
    let mut count: usize = 0;
    for i in 0..blocks.len() {
        count = count.saturating_add(count_in_block(blocks[i], ctx));
    }
    count
}

/// The values inside the root, each with a number, in pre-order: a block's arguments come before its operations, and an
/// operation's results before what is in its regions.
///
/// Asks that the root is live; `count` says for how many values there is room at first. Errors: allocation failure.
/// Cost: one step for each operation, block and value inside it; the depth takes memory on a list alone.
pub fn value_numbers(
    alloc: Global,
    root: Ptr<Operation>,
    count: usize,
    ctx: &Context,
) -> Result<IndexSet<Value>, OptError>
    requires { IsLive ctx.now.tree root }
    ensures ok { IfOk result (λ numbered. AddsKeys (values_in_preorder ctx.now.tree root) [] numbered.keys) }
    ensures memory { IsOkUnless result OptError.Memory }
{
    ctx.well_formed();
    let mut numbered = IndexSet::with_capacity(alloc, count)?;
    let mut stack = Vec::new(alloc);
    stack_inner(alloc, &Part::Operation(root), ctx, &mut stack)?;
    while let Some(part) = stack.pop() {
        add_defined(&part, ctx, &mut numbered)?;
        stack_inner(alloc, &part, ctx, &mut stack)?;
    }
    Ok(numbered)
}
