//! Copies of blocks, in a region.
ghost use Rattle.std.specs.Prelude.{◌≡◌, ◌++◌, ◌+◌, ◌<◌, ◌≤◌, [], None, Some, ℕ, List, OnOk, OnErr, IsOkUnless, IfOk, length, map, take};
ghost use Rattle.std.specs.List.{flat_map, range_with_len};
ghost use Rattle.pliron_core.specs.declared.attrs.Head.{Head as HeadOf};
ghost use Rattle.pliron_core.specs.Tree.{In, IsBlock, IsLive, IsRegion, IsDefined, IsDistinct, head_of, operands_of, successors_of, results_of, body_of, arguments_of, layout_of, last_of};
ghost use Rattle.pliron_core.specs.Changes.{IsSameTree};
ghost use Rattle.pliron_core.specs.Writes.{after_creating, moved_last};
ghost use Rattle.pliron_rewrite_calls.specs.CopyTables.{block_copy, value_copy, block_or_copy_in, value_or_copy_in};
ghost use Rattle.pliron_rewrite_calls.specs.Copying.{AreChildless, AreCopiedInto, KnowsCopies, operations_of};
ghost use Rattle.pliron_rewrite_calls.specs.CopySteps.{CopySource, MayCopy, IsGrownIn, AreBare, IsCopying, AreConnected, AreValuesAdded, HasNames};

use crate::copies::Copies;
use crate::erasing::erase_new_blocks;
use pliron_core::{Attrs, BasicBlock, Context, Head, Operation, Ptr, Region, Rewriter};
use pliron_laws::{OptError, Room};
use std::alloc::Global;

// An equal head.
fn copy_head(alloc: Global, head: &Head) -> Result<Head, OptError>
    ensures ok { IfOk result (λ copy. copy ≡ head.now) }
    ensures memory { IsOkUnless result OptError.Memory }
{
    let mut attrs = Vec::new(alloc);
    for i in 0..head.attrs.len() {
        let attr = head.attrs.get(i).copy(alloc)?;
        attrs.push(attr)?;
    }
    Ok(Head {
        kind: head.kind,
        ssa: head.ssa,
        attrs: Attrs::new(attrs),
    })
}

// Adds the operations of the block, in order.
fn push_operations(
    block: Ptr<BasicBlock>,
    ctx: &Context,
    operations: &mut Vec<Ptr<Operation>>,
) -> Result<(), OptError>
    requires { IsBlock ctx.now.tree block }
    ensures pushed { OnOk result (operations.new.items ≡ operations.old.items ++ body_of ctx.now.tree block) }
    ensures memory { IsOkUnless result OptError.Memory }
{
    ctx.well_formed();
    let mut at = block.get_head(ctx);
    while let Some(op) = at {
        operations.push(op)?;
        at = op.get_next(ctx);
    }
    Ok(())
}

// Adds the operations of these blocks, in order.
pub(crate) fn push_all_operations(
    blocks: &[Ptr<BasicBlock>],
    ctx: &Context,
    operations: &mut Vec<Ptr<Operation>>,
) -> Result<(), OptError>
    requires { (b : ℕ) → In b blocks.now → IsBlock ctx.now.tree b }
    ensures pushed { OnOk result (operations.new.items ≡ operations.old.items ++ operations_of ctx.now.tree
        blocks.now) }
    ensures memory { IsOkUnless result OptError.Memory }
{
    for i in 0..blocks.len() {
        push_operations(blocks[i], ctx, operations)?;
    }
    Ok(())
}

// The arguments of the block get those of its copy as copies.
fn map_arguments(
    block: Ptr<BasicBlock>,
    copy: Ptr<BasicBlock>,
    ctx: &Context,
    copies: &mut Copies,
) -> Result<(), OptError>
    requires block { IsBlock ctx.now.tree block }
    requires copy { IsBlock ctx.now.tree copy }
    requires long { length (arguments_of ctx.now.tree block) ≡ length (arguments_of ctx.now.tree copy) }
    ensures added { OnOk result (AreValuesAdded (arguments_of ctx.now.tree block) (arguments_of ctx.now.tree copy)
        (length (arguments_of ctx.now.tree block)) copies.old copies.new) }
    ensures memory { IsOkUnless result OptError.Memory }
{
    for j in 0..block.num_argument(ctx) {
        copies.add_value(block.get_argument(ctx, j), copy.get_argument(ctx, j))?;
    }
    Ok(())
}

// The results of the operation get those of its copy as copies.
fn map_results(
    op: Ptr<Operation>,
    copy: Ptr<Operation>,
    ctx: &Context,
    copies: &mut Copies,
) -> Result<(), OptError>
    requires op { IsLive ctx.now.tree op }
    requires copy { IsLive ctx.now.tree copy }
    requires long { length (results_of ctx.now.tree op) ≡ length (results_of ctx.now.tree copy) }
    ensures added { OnOk result (AreValuesAdded (results_of ctx.now.tree op) (results_of ctx.now.tree copy)
        (length (results_of ctx.now.tree op)) copies.old copies.new) }
    ensures memory { IsOkUnless result OptError.Memory }
{
    for j in 0..op.num_result(ctx) {
        copies.add_value(op.get_result(ctx, j), copy.get_result(ctx, j))?;
    }
    Ok(())
}

// A block with as many arguments as the block with this index, the last of the region.
fn make_block(
    blocks: &[Ptr<BasicBlock>],
    i: usize,
    region: Ptr<Region>,
    ctx: &mut Context,
    copies: &mut Copies,
) -> Result<(), OptError>
    ghost x: { CopySource }
    requires may { MayCopy x }
    requires blocks { x.blocks ≡ blocks.now }
    requires index { i < length blocks.now }
    requires copying { IsCopying x ctx.old.tree (take i blocks.now) [] copies.old }
    requires region { x.region ≡ region }
    ensures ok { OnOk result (IsCopying x ctx.new.tree (take (i + 1) blocks.now) [] copies.new) }
    ensures grown { IsGrownIn x.tree ctx.new.tree x.region }
    ensures memory { IsOkUnless result OptError.Memory }
{
    ctx.well_formed();
    let block = blocks[i];
    let count = block.num_argument(ctx);
    let copy = BasicBlock::create(ctx, region, count)?;
    ctx.well_formed();
    copies.add_block(block, copy)?;
    map_arguments(block, copy, ctx, copies)?;
    Ok(())
}

// Blocks with as many arguments as these.
fn make_blocks(
    blocks: &[Ptr<BasicBlock>],
    region: Ptr<Region>,
    ctx: &mut Context,
    copies: &mut Copies,
) -> Result<(), OptError>
    ghost x: { CopySource }
    requires may { MayCopy x }
    requires blocks { x.blocks ≡ blocks.now }
    requires copying { IsCopying x ctx.old.tree [] [] copies.old }
    requires region { x.region ≡ region }
    ensures ok { OnOk result (IsCopying x ctx.new.tree blocks.now [] copies.new) }
    ensures grown { IsGrownIn x.tree ctx.new.tree x.region }
    ensures memory { IsOkUnless result OptError.Memory }
{
    for i in 0..blocks.len() {
        make_block(blocks, i, region, ctx, copies)?;
    }
    Ok(())
}

// An operation with an equal head and as many results, the last of the block. It has no operands and no successors yet.
fn make_like<R: Rewriter + Room>(
    alloc: Global,
    op: Ptr<Operation>,
    to: Ptr<BasicBlock>,
    ctx: &mut Context,
    rewriter: &mut R,
) -> Result<Ptr<Operation>, OptError>
    requires live { IsLive ctx.old.tree op }
    requires to { IsBlock ctx.old.tree to }
    ensures key { IfOk result (λ copy. copy ≡ length ctx.old.tree.operations) }
    ensures created { OnOk result ((h : HeadOf) → head_of ctx.old.tree op ≡ Some h → ctx.new.tree ≡ moved_last
        (after_creating ctx.old.tree h (length (results_of ctx.old.tree op)) 0) (length ctx.old.tree.operations)
        to) }
    ensures refused { OnErr result (ctx.new ≡ ctx.old) }
    ensures memory { IsOkUnless result OptError.Memory }
    ensures point { R.point rewriter.new ≡ R.point rewriter.old }
{
    let head = copy_head(alloc, op.head(ctx))?;
    let count = op.num_result(ctx);
    let copy = Operation::create(ctx, head, count, 0)?;
    ctx.well_formed();
    rewriter.move_operation_to_end(ctx, copy, to);
    Ok(copy)
}

// A copy of the operation with this index, in the copy of its block, but for what it names.
fn make_operation<R: Rewriter + Room>(
    alloc: Global,
    operations: &[Ptr<Operation>],
    i: usize,
    ctx: &mut Context,
    copies: &mut Copies,
    rewriter: &mut R,
) -> Result<Ptr<Operation>, OptError>
    ghost x: { CopySource }
    requires may { MayCopy x }
    requires operations { operations.now ≡ operations_of x.tree x.blocks }
    requires index { i < length operations.now }
    requires copying { IsCopying x ctx.old.tree x.blocks (take i operations.now) copies.old }
    ensures key { IfOk result (λ copy. copy ≡ length x.tree.operations + i) }
    ensures ok { OnOk result (IsCopying x ctx.new.tree x.blocks (take (i + 1) operations.now) copies.new) }
    ensures grown { IsGrownIn x.tree ctx.new.tree x.region }
    ensures bare { AreBare x.tree ctx.old.tree → AreBare x.tree ctx.new.tree }
    ensures memory { IsOkUnless result OptError.Memory }
    ensures point { R.point rewriter.new ≡ R.point rewriter.old }
{
    ctx.well_formed();
    let op = operations[i];
    let Some(block) = op.get_parent_block(ctx) else {
        unreachable!()
    };
    let to = copies.block_or_copy(block);
    let copy = make_like(alloc, op, to, ctx, rewriter)?;
    ctx.well_formed();
    map_results(op, copy, ctx, copies)?;
    Ok(copy)
}

// Copies of these operations, in the copies of their blocks, but for what they name.
fn make_operations<R: Rewriter + Room>(
    alloc: Global,
    operations: &[Ptr<Operation>],
    ctx: &mut Context,
    copies: &mut Copies,
    rewriter: &mut R,
) -> Result<Vec<Ptr<Operation>>, OptError>
    ghost x: { CopySource }
    requires may { MayCopy x }
    requires operations { operations.now ≡ operations_of x.tree x.blocks }
    requires copying { IsCopying x ctx.old.tree x.blocks [] copies.old }
    requires bare { AreBare x.tree ctx.old.tree }
    ensures ok { OnOk result (IsCopying x ctx.new.tree x.blocks operations.now copies.new) }
    ensures bare { OnOk result (AreBare x.tree ctx.new.tree) }
    ensures range { IfOk result (λ made. made.items ≡ range_with_len (length x.tree.operations)
        (length operations.now)) }
    ensures grown { IsGrownIn x.tree ctx.new.tree x.region }
    ensures memory { IsOkUnless result OptError.Memory }
    ensures point { R.point rewriter.new ≡ R.point rewriter.old }
{
    let mut made = Vec::new(alloc);
    for i in 0..operations.len() {
        let copy = make_operation(alloc, operations, i, ctx, copies, rewriter)?;
        made.push(copy)?;
    }
    Ok(made)
}

// The copy, which names nothing yet, gets the operands of the operation, and copies of those that were copied.
fn push_operands(
    op: Ptr<Operation>,
    copy: Ptr<Operation>,
    ctx: &mut Context,
    copies: &Copies,
) -> Result<(), OptError>
    requires op { IsLive ctx.old.tree op }
    requires copy { IsLive ctx.old.tree copy }
    requires apart { op ≡ copy → ⊥ }
    requires bare { operands_of ctx.old.tree copy ≡ [] }
    requires defined { (v : ℕ) → In v (operands_of ctx.old.tree op) → IsDefined ctx.old.tree
        (value_or_copy_in copies.now v) }
    ensures ok { OnOk result (HasNames ctx.old.tree ctx.new.tree copy (map (value_or_copy_in copies.now)
        (operands_of ctx.old.tree op)) (successors_of ctx.old.tree copy)) }
    ensures named { (xs : List ℕ) × HasNames ctx.old.tree ctx.new.tree copy xs (successors_of ctx.old.tree copy) }
    ensures memory { IsOkUnless result OptError.Memory }
{
    ctx.well_formed();
    for j in 0..op.num_operand(ctx) {
        let value = copies.value_or_copy(op.get_operand(ctx, j));
        Operation::push_operand(ctx, copy, value)?;
    }
    Ok(())
}

// The same with successors.
fn push_successors(
    op: Ptr<Operation>,
    copy: Ptr<Operation>,
    ctx: &mut Context,
    copies: &Copies,
) -> Result<(), OptError>
    requires op { IsLive ctx.old.tree op }
    requires copy { IsLive ctx.old.tree copy }
    requires apart { op ≡ copy → ⊥ }
    requires bare { successors_of ctx.old.tree copy ≡ [] }
    requires blocks { (b : ℕ) → In b (successors_of ctx.old.tree op) → IsBlock ctx.old.tree
        (block_or_copy_in copies.now b) }
    ensures ok { OnOk result (HasNames ctx.old.tree ctx.new.tree copy (operands_of ctx.old.tree copy) (map
        (block_or_copy_in copies.now) (successors_of ctx.old.tree op))) }
    ensures named { (ys : List ℕ) × HasNames ctx.old.tree ctx.new.tree copy (operands_of ctx.old.tree copy) ys }
    ensures memory { IsOkUnless result OptError.Memory }
{
    ctx.well_formed();
    for j in 0..op.num_successor(ctx) {
        let block = copies.block_or_copy(op.get_successor(ctx, j));
        Operation::push_successor(ctx, copy, block)?;
    }
    Ok(())
}

// The copy of the operation with this index gets the operands and the successors, and copies of those that were copied.
fn connect(
    operations: &[Ptr<Operation>],
    made: &[Ptr<Operation>],
    i: usize,
    ctx: &mut Context,
    copies: &Copies,
) -> Result<(), OptError>
    ghost x: { CopySource }
    requires may { MayCopy x }
    requires operations { operations.now ≡ operations_of x.tree x.blocks }
    requires made { made.now ≡ range_with_len (length x.tree.operations) (length operations.now) }
    requires index { i < length operations.now }
    requires copying { IsCopying x ctx.old.tree x.blocks operations.now copies.now }
    requires connected { AreConnected x ctx.old.tree copies.now i }
    ensures copying { IsCopying x ctx.new.tree x.blocks operations.now copies.now }
    ensures connected { OnOk result (AreConnected x ctx.new.tree copies.now (i + 1)) }
    ensures memory { IsOkUnless result OptError.Memory }
{
    ctx.well_formed();
    let op = operations[i];
    let copy = made[i];
    push_operands(op, copy, ctx, copies)?;
    push_successors(op, copy, ctx, copies)?;
    Ok(())
}

// The copies get operands and successors.
fn connect_all(
    operations: &[Ptr<Operation>],
    made: &[Ptr<Operation>],
    ctx: &mut Context,
    copies: &Copies,
) -> Result<(), OptError>
    ghost x: { CopySource }
    requires may { MayCopy x }
    requires operations { operations.now ≡ operations_of x.tree x.blocks }
    requires made { made.now ≡ range_with_len (length x.tree.operations) (length operations.now) }
    requires copying { IsCopying x ctx.old.tree x.blocks operations.now copies.now }
    requires bare { AreBare x.tree ctx.old.tree }
    ensures copying { IsCopying x ctx.new.tree x.blocks operations.now copies.now }
    ensures connected { OnOk result (AreConnected x ctx.new.tree copies.now (length operations.now)) }
    ensures memory { IsOkUnless result OptError.Memory }
{
    for i in 0..operations.len() {
        connect(operations, made, i, ctx, copies)?;
    }
    Ok(())
}

// Copies of the blocks, which have these operations. On allocation failure the region has some of them.
fn make_copies<R: Rewriter + Room>(
    alloc: Global,
    blocks: &[Ptr<BasicBlock>],
    operations: &[Ptr<Operation>],
    region: Ptr<Region>,
    ctx: &mut Context,
    rewriter: &mut R,
) -> Result<Copies, OptError>
    ghost x: { CopySource }
    requires may { MayCopy x }
    requires tree { x.tree ≡ ctx.old.tree }
    requires blocks { x.blocks ≡ blocks.now }
    requires operations { operations.now ≡ operations_of x.tree x.blocks }
    requires region { x.region ≡ region }
    ensures ok { OnOk result (AreCopiedInto x.tree ctx.new.tree x.region x.blocks) }
    ensures copies { IfOk result (λ copies. KnowsCopies x.tree ctx.new.tree x.blocks copies) }
    ensures grown { IsGrownIn x.tree ctx.new.tree x.region }
    ensures memory { IsOkUnless result OptError.Memory }
    ensures point { R.point rewriter.new ≡ R.point rewriter.old }
{
    let mut copies = Copies::new(alloc);
    make_blocks(blocks, region, ctx, &mut copies)?;
    ctx.well_formed();
    let made = make_operations(alloc, operations, ctx, &mut copies, rewriter)?;
    connect_all(operations, made.as_slice(), ctx, &copies)?;
    Ok(copies)
}

// Copies of the blocks, which have these operations, where there is room for as many changes as operations and blocks.
pub(crate) fn copy_within_room<R: Rewriter + Room>(
    alloc: Global,
    blocks: &[Ptr<BasicBlock>],
    operations: &[Ptr<Operation>],
    region: Ptr<Region>,
    ctx: &mut Context,
    rewriter: &mut R,
) -> Result<Copies, OptError>
    ghost x: { CopySource }
    requires may { MayCopy x }
    requires tree { x.tree ≡ ctx.old.tree }
    requires blocks { x.blocks ≡ blocks.now }
    requires operations { operations.now ≡ operations_of x.tree x.blocks }
    requires region { x.region ≡ region }
    ensures ok { OnOk result (AreCopiedInto x.tree ctx.new.tree x.region x.blocks) }
    ensures copies { IfOk result (λ copies. KnowsCopies x.tree ctx.new.tree x.blocks copies) }
    ensures grown { OnOk result (IsGrownIn x.tree ctx.new.tree x.region) }
    ensures refused { OnErr result (IsSameTree x.tree ctx.new.tree) }
    ensures longer { length ctx.old.tree.operations ≤ length ctx.new.tree.operations }
    ensures memory { IsOkUnless result OptError.Memory }
    ensures point { R.point rewriter.new ≡ R.point rewriter.old }
{
    let last = region.get_tail(ctx);
    match make_copies(alloc, blocks, operations, region, ctx, rewriter) {
        Ok(copies) => Ok(copies),
        Err(refusal) => {
            erase_new_blocks(region, &last, ctx, rewriter);
            Err(refusal)
        }
    }
}

/// Copies of these blocks, the last ones of the region, in the order of the blocks. A copy names copies of what is
/// copied, and else what its original names. Nothing leads to the copies yet but they themselves.
///
/// Asks that the blocks are live and apart, that no operation in them has regions (`may_copy_blocks` tests these), and
/// that the region is live (`is_live` tests it). It takes room for the changes first, also for the way back. Errors:
/// allocation failure, which leaves the tree as it was, but for erased handles. Cost: linear in the blocks, their
/// operations, and what these have and name.
pub fn copy_blocks<R: Rewriter + Room>(
    alloc: Global,
    blocks: &[Ptr<BasicBlock>],
    region: Ptr<Region>,
    ctx: &mut Context,
    rewriter: &mut R,
) -> Result<Copies, OptError>
    requires blocks { (b : ℕ) → In b blocks.now → IsBlock ctx.old.tree b }
    requires distinct { IsDistinct blocks.now }
    requires childless { AreChildless ctx.old.tree blocks.now }
    requires region { IsRegion ctx.old.tree region }
    ensures ok { OnOk result (AreCopiedInto ctx.old.tree ctx.new.tree region blocks.now) }
    ensures copies { IfOk result (λ copies. KnowsCopies ctx.old.tree ctx.new.tree blocks.now copies) }
    ensures refused { OnErr result (IsSameTree ctx.old.tree ctx.new.tree) }
    ensures longer { length ctx.old.tree.operations ≤ length ctx.new.tree.operations }
    ensures memory { IsOkUnless result OptError.Memory }
    ensures point { R.point rewriter.new ≡ R.point rewriter.old }
{
    ctx.well_formed();
    let mut operations = Vec::new(alloc);
    push_all_operations(blocks, ctx, &mut operations)?;
    rewriter.room(alloc, operations.len().saturating_add(blocks.len()))?;
    copy_within_room(alloc, blocks, operations.as_slice(), region, ctx, rewriter)
}
