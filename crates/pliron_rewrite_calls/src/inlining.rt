//! A call that becomes a jump to a copy of its callee's blocks.
ghost use Rattle.std.specs.Prelude.{◌≡◌, ◌∷◌, ◌<◌, [], None, Some, ℕ, List, length, map, OnOk, OnErr, IfOk, IsOkUnless};
ghost use Rattle.pliron_core.specs.declared.attrs.Head.{Head as HeadOf};
ghost use Rattle.pliron_core.specs.Tree.{In, IsLive, IsBlock, IsDefined, operands_of, successors_of, results_of, regions_of, parent_of, body_of, first_of, last_of};
ghost use Rattle.pliron_core.specs.Reads.{next_of};
ghost use Rattle.pliron_core.specs.Changes.{IsSameTree};
ghost use Rattle.pliron_laws.specs.Datum.{Datum};
ghost use Rattle.pliron_dialect_calls.specs.Inlinable.{IsJumpHead};
ghost use Rattle.pliron_rewrite_calls.specs.CopyTables.{block_or_copy_in};
ghost use Rattle.pliron_rewrite_calls.specs.Copying.{AreCopiedInto, KnowsCopies, operations_of};
ghost use Rattle.pliron_rewrite_calls.specs.CopySteps.{CopySource, MayCopy, IsGrownIn, HasNames};
ghost use Rattle.pliron_rewrite_calls.specs.Inlining.{IsInlined, MayInline};
ghost use Rattle.pliron_rewrite_calls.specs.InliningSteps.{IsJumpMade, IsTakenBack, IsLastReplaced, IsReturnLed, AreReturnsBare, AreReturnsLed, IsLedBack, AreCopiesLed, IsCallReplaced};

use crate::copies::Copies;
use crate::copying::{copy_within_room, push_all_operations};
use crate::erasing::erase_new_blocks;
use pliron_core::{BasicBlock, Context, Head, Operation, Ptr, Region, Rewriter, Value};
use pliron_dialect_calls::InliningDialect;
use pliron_laws::reads::{all_operands, push_layout};
use pliron_laws::{OptError, Room};
use std::alloc::Global;

// The new operation, which names nothing yet, gets these operands and this successor. On allocation failure it has some of
// them.
fn add_edge(
    jump: Ptr<Operation>,
    values: &[Value],
    target: Ptr<BasicBlock>,
    ctx: &mut Context,
) -> Result<(), OptError>
    requires live { IsLive ctx.old.tree jump }
    requires no_operands { operands_of ctx.old.tree jump ≡ [] }
    requires no_successors { successors_of ctx.old.tree jump ≡ [] }
    requires values { (v : ℕ) → In v values.now → IsDefined ctx.old.tree v }
    requires target { IsBlock ctx.old.tree target }
    ensures ok { OnOk result (HasNames ctx.old.tree ctx.new.tree jump values.now (target ∷ [])) }
    ensures named { (xs : List ℕ) × (ys : List ℕ) × HasNames ctx.old.tree ctx.new.tree jump xs ys }
    ensures memory { IsOkUnless result OptError.Memory }
{
    ctx.well_formed();
    for j in 0..values.len() {
        Operation::push_operand(ctx, jump, values[j])?;
    }
    Operation::push_successor(ctx, jump, target)?;
    Ok(())
}

// A new operation in no block, with these operands and this successor. Errors: allocation failure, after which it is
// erased again.
pub(crate) fn make_jump<R: Rewriter>(
    head: Head,
    values: &[Value],
    target: Ptr<BasicBlock>,
    ctx: &mut Context,
    rewriter: &mut R,
) -> Result<Ptr<Operation>, OptError>
    requires values { (v : ℕ) → In v values.now → IsDefined ctx.old.tree v }
    requires target { IsBlock ctx.old.tree target }
    ensures made { IfOk result (λ jump. IsJumpMade ctx.old.tree ctx.new.tree jump head values.now
        (target ∷ [])) }
    ensures refused { OnErr result (IsTakenBack ctx.old.tree ctx.new.tree) }
    ensures memory { IsOkUnless result OptError.Memory }
    ensures point { R.point rewriter.new ≡ R.point rewriter.old }
{
    ctx.well_formed();
    let jump = Operation::create(ctx, head, 0, 0)?;
    ctx.well_formed();
    match add_edge(jump, values, target, ctx) {
        Ok(()) => Ok(jump),
        Err(refusal) => {
            ctx.well_formed();
            rewriter.erase_operation(ctx, jump);
            Err(refusal)
        }
    }
}

// The last operation of the block, which has no results and no regions, becomes a jump with its operands.
fn replace_last<D: InliningDialect, R: Rewriter + Room>(
    alloc: Global,
    last: Ptr<Operation>,
    block: Ptr<BasicBlock>,
    after: Ptr<BasicBlock>,
    ctx: &mut Context,
    rewriter: &mut R,
) -> Result<(), OptError>
    requires block { IsBlock ctx.old.tree block }
    requires after { IsBlock ctx.old.tree after }
    requires last { last_of None (body_of ctx.old.tree block) ≡ Some last }
    requires no_results { results_of ctx.old.tree last ≡ [] }
    requires no_regions { regions_of ctx.old.tree last ≡ [] }
    ensures ok { OnOk result ((h : HeadOf) × IsJumpHead D.meaning (length (operands_of ctx.old.tree last))
        h × IsLastReplaced ctx.old.tree ctx.new.tree block last (length ctx.old.tree.operations) h after) }
    ensures refused { OnErr result (IsTakenBack ctx.old.tree ctx.new.tree) }
    ensures memory { IsOkUnless result OptError.Memory }
    ensures point { R.point rewriter.new ≡ R.point rewriter.old }
{
    ctx.well_formed();
    let values = all_operands(alloc, last, ctx)?;
    let head = D::jump_head(alloc, values.len())?;
    let jump = make_jump(head, values.as_slice(), after, ctx, rewriter)?;
    ctx.well_formed();
    rewriter.move_operation_to_end(ctx, jump, block);
    ctx.well_formed();
    rewriter.erase_operation(ctx, last);
    Ok(())
}

// The return at the end of the block, if there is one, becomes a jump with its operands.
fn replace_return<D: InliningDialect, R: Rewriter + Room>(
    alloc: Global,
    block: Ptr<BasicBlock>,
    after: Ptr<BasicBlock>,
    ctx: &mut Context,
    rewriter: &mut R,
) -> Result<(), OptError>
    requires block { IsBlock ctx.old.tree block }
    requires after { IsBlock ctx.old.tree after }
    requires bare { AreReturnsBare D.returns ctx.old.tree block }
    ensures ok { OnOk result (IsReturnLed D.meaning D.returns ctx.old.tree ctx.new.tree block after) }
    ensures refused { OnErr result (IsTakenBack ctx.old.tree ctx.new.tree) }
    ensures memory { IsOkUnless result OptError.Memory }
    ensures point { R.point rewriter.new ≡ R.point rewriter.old }
{
    let Some(last) = block.get_tail(ctx) else {
        return Ok(());
    };
    if !D::is_return(last, ctx) {
        return Ok(());
    }
    replace_last::<D, R>(alloc, last, block, after, ctx, rewriter)
}

// The returns at the ends of the blocks' copies become jumps.
fn replace_returns<D: InliningDialect, R: Rewriter + Room>(
    alloc: Global,
    blocks: &[Ptr<BasicBlock>],
    copies: &Copies,
    after: Ptr<BasicBlock>,
    ctx: &mut Context,
    rewriter: &mut R,
) -> Result<(), OptError>
    ghost x: { CopySource }
    requires may { MayCopy x }
    requires blocks { x.blocks ≡ blocks.now }
    requires copied { AreCopiedInto x.tree ctx.old.tree x.region x.blocks }
    requires copies { KnowsCopies x.tree ctx.old.tree x.blocks copies.now }
    requires grown { IsGrownIn x.tree ctx.old.tree x.region }
    requires after { IsBlock x.tree after }
    requires bare { (b : ℕ) → In b x.blocks → AreReturnsBare D.returns x.tree b }
    ensures led { OnOk result ((olds : List ℕ) × AreReturnsLed D.meaning D.returns ctx.old.tree ctx.new.tree after
        (map (block_or_copy_in copies.now) blocks.now) olds) }
    ensures grown { IsGrownIn x.tree ctx.new.tree x.region }
    ensures memory { IsOkUnless result OptError.Memory }
    ensures point { R.point rewriter.new ≡ R.point rewriter.old }
{
    ctx.well_formed();
    for i in 0..blocks.len() {
        ctx.well_formed();
        let copy = copies.block_or_copy(blocks[i]);
        replace_return::<D, R>(alloc, copy, after, ctx, rewriter)?;
    }
    Ok(())
}

// A call, the region that it stands in, and the block where the jump behind it leads.
#[derive(Clone, Copy)]
struct InlineSite {
    call: Ptr<Operation>,
    region: Ptr<Region>,
    after: Ptr<BasicBlock>,
}

// The returns at the ends of the blocks' copies become jumps, and a jump to the copy of the first one is made, in no
// block, with the operands of the call.
fn lead_back<D: InliningDialect, R: Rewriter + Room>(
    alloc: Global,
    site: InlineSite,
    blocks: &[Ptr<BasicBlock>],
    copies: &Copies,
    ctx: &mut Context,
    rewriter: &mut R,
) -> Result<Ptr<Operation>, OptError>
    ghost x: { CopySource }
    requires may { MayCopy x }
    requires blocks { x.blocks ≡ blocks.now }
    requires copied { AreCopiedInto x.tree ctx.old.tree x.region x.blocks }
    requires copies { KnowsCopies x.tree ctx.old.tree x.blocks copies.now }
    requires grown { IsGrownIn x.tree ctx.old.tree x.region }
    requires after { IsBlock x.tree site.after }
    requires bare { (b : ℕ) → In b x.blocks → AreReturnsBare D.returns x.tree b }
    requires call { IsLive x.tree site.call }
    requires some { 0 < length blocks.now }
    ensures led { IfOk result (λ jump. (entry : ℕ) × (first_of blocks.now None ≡ Some entry) × IsLedBack D.meaning
        D.returns ctx.old.tree ctx.new.tree copies.now blocks.now site.after (operands_of x.tree site.call)
        entry jump) }
    ensures grown { OnErr result (IsGrownIn x.tree ctx.new.tree x.region) }
    ensures memory { IsOkUnless result OptError.Memory }
    ensures point { R.point rewriter.new ≡ R.point rewriter.old }
{
    ctx.well_formed();
    replace_returns::<D, R>(alloc, blocks, copies, site.after, ctx, rewriter)?;
    ctx.well_formed();
    let entry = copies.block_or_copy(blocks[0]);
    let values = all_operands(alloc, site.call, ctx)?;
    let head = D::jump_head(alloc, values.len())?;
    let jump = make_jump(head, values.as_slice(), entry, ctx, rewriter)?;
    Ok(jump)
}

// Copies of blocks, and a jump to the first one.
#[derive(Drop)]
struct LedCopies {
    jump: Ptr<Operation>,
    copies: Copies,
}

// Copies of the blocks, with these operations, whose returns lead to where the jump led, and a jump to the first one in
// no block, where there is room for the changes, also for the way back.
fn copy_and_lead_back<D: InliningDialect, R: Rewriter + Room>(
    alloc: Global,
    site: InlineSite,
    blocks: &[Ptr<BasicBlock>],
    operations: &[Ptr<Operation>],
    ctx: &mut Context,
    rewriter: &mut R,
) -> Result<LedCopies, OptError>
    ghost x: { CopySource }
    requires may { MayCopy x }
    requires tree { x.tree ≡ ctx.old.tree }
    requires blocks { x.blocks ≡ blocks.now }
    requires operations { operations.now ≡ operations_of x.tree x.blocks }
    requires region { x.region ≡ site.region }
    requires after { IsBlock x.tree site.after }
    requires bare { (b : ℕ) → In b x.blocks → AreReturnsBare D.returns x.tree b }
    requires call { IsLive x.tree site.call }
    requires some { 0 < length blocks.now }
    ensures led { IfOk result (λ led. (entry : ℕ) × (first_of x.blocks None ≡ Some entry) × AreCopiesLed D.meaning
        D.returns x.tree ctx.new.tree x.region x.blocks site.after (operands_of x.tree site.call) entry led.jump) }
    ensures refused { OnErr result (IsSameTree x.tree ctx.new.tree) }
    ensures memory { IsOkUnless result OptError.Memory }
    ensures point { R.point rewriter.new ≡ R.point rewriter.old }
{
    let region = site.region;
    let last = region.get_tail(ctx);
    let copies = copy_within_room(alloc, blocks, operations, region, ctx, rewriter)?;
    ctx.well_formed();
    match lead_back::<D, R>(alloc, site, blocks, &copies, ctx, rewriter) {
        Ok(jump) => Ok(LedCopies { jump, copies }),
        Err(refusal) => {
            erase_new_blocks(region, &last, ctx, rewriter);
            Err(refusal)
        }
    }
}

// The call and the jump behind it, which end the block, become the new jump.
fn replace_call<R: Rewriter>(
    call: Ptr<Operation>,
    jump: Ptr<Operation>,
    new: Ptr<Operation>,
    block: Ptr<BasicBlock>,
    ctx: &mut Context,
    rewriter: &mut R,
)
    requires holds { parent_of ctx.old.tree call ≡ Some block }
    requires behind { next_of ctx.old.tree call ≡ Some jump }
    requires last { last_of None (body_of ctx.old.tree block) ≡ Some jump }
    requires plain { regions_of ctx.old.tree call ≡ [] }
    requires bare { (results_of ctx.old.tree jump ≡ []) × (regions_of ctx.old.tree jump ≡ []) }
    requires used_there { (k v : ℕ) → In v (results_of ctx.old.tree call) → In v (operands_of ctx.old.tree k) →
        k ≡ jump }
    requires new { IsLive ctx.old.tree new }
    requires free { parent_of ctx.old.tree new ≡ None }
    requires childless { regions_of ctx.old.tree new ≡ [] }
    ensures replaced { IsCallReplaced ctx.old.tree ctx.new.tree block call jump new }
    ensures point { R.point rewriter.new ≡ R.point rewriter.old }
{
    ctx.well_formed();
    rewriter.erase_operation(ctx, jump);
    ctx.well_formed();
    rewriter.erase_operation(ctx, call);
    ctx.well_formed();
    rewriter.move_operation_to_end(ctx, new, block);
}

/// The call and the jump behind it become a jump to a copy of the callee's blocks, in which returns jump where the old
/// jump led. It is a whole rewrite, or none. The answer is what was copied, and its copies.
///
/// Asks that the call calls the callee's name and has no regions; that behind it, last in its block, is a jump with its
/// results, which nothing else uses; that the callee runs its one region. What is inside names only what is inside, has
/// no regions (`may_copy_blocks` tests it), and never leaves but by returns at the ends of blocks (`InliningDialect` tells
/// it). Errors: allocation failure, which leaves the tree as it was, but for erased handles. Cost: linear in the callee.
/// The way of MLIR's `inlineRegion`.
pub fn inline_call<D: InliningDialect, R: Rewriter + Room>(
    alloc: Global,
    call: Ptr<Operation>,
    callee: Ptr<Operation>,
    ctx: &mut Context,
    rewriter: &mut R,
) -> Result<Copies, OptError>
    ghost symbol: { Datum }
    requires { MayInline D.meaning D.convention D.returns ctx.old.tree call callee symbol }
    ensures inlined { OnOk result (IsInlined D.meaning D.convention ctx.old.tree ctx.new.tree call callee symbol) }
    ensures refused { OnErr result (IsSameTree ctx.old.tree ctx.new.tree) }
    ensures memory { IsOkUnless result OptError.Memory }
    ensures point { R.point rewriter.new ≡ R.point rewriter.old }
{
    ctx.well_formed();
    let Some(block) = call.get_parent_block(ctx) else {
        unreachable!()
    };
    let Some(jump) = call.get_next(ctx) else {
        unreachable!()
    };
    let Some(region) = block.get_parent_region(ctx) else {
        unreachable!()
    };
    let after = jump.get_successor(ctx, 0);
    let mut blocks = Vec::new(alloc);
    let mut operations = Vec::new(alloc);
    push_layout(callee.get_region(ctx, 0), ctx, &mut blocks)?;
    push_all_operations(blocks.as_slice(), ctx, &mut operations)?;
    // the copies, three changes for each return, what puts the new jump, and what takes the copies back
    let changes = operations
        .len()
        .saturating_add(blocks.len().saturating_mul(4));
    rewriter.room(alloc, changes.saturating_add(4))?;
    let site = InlineSite {
        call,
        region,
        after,
    };
    let new = copy_and_lead_back::<D, R>(
        alloc,
        site,
        blocks.as_slice(),
        operations.as_slice(),
        ctx,
        rewriter,
    )?;
    ctx.well_formed();
    replace_call(call, jump, new.jump, block, ctx, rewriter);
    ctx.well_formed();
    Ok(new.copies)
}
