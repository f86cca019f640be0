//! A call that is prepared for inlining.
ghost use Rattle.std.specs.Prelude.{◌≡◌, ◌∷◌, ◌≤◌, [], Some, ℕ, IsSome, IfOk, OnOk, OnErr, IsOkUnless, length, slice_get};
ghost use Rattle.pliron_core.specs.declared.attrs.Head.{Head as HeadOf};
ghost use Rattle.pliron_core.specs.Changes.{IsSameTree};
ghost use Rattle.pliron_core.specs.Reads.{next_of};
ghost use Rattle.pliron_core.specs.Tree.{Tree, In, IsLive, IsBlock, IsDefined, operands_of, successors_of, results_of, regions_of, arguments_of};
ghost use Rattle.pliron_core.specs.Writes.{after_replacing};
ghost use Rattle.pliron_theory.specs.Keeps.{KeepsAllRuns};
ghost use Rattle.pliron_rewrite_blocks.specs.Pairs.{forwarded_uses};
ghost use Rattle.pliron_dialect_calls.specs.Inlinable.{IsJumpHead};
ghost use Rattle.pliron_rewrite_calls.specs.InliningSteps.{IsJumpMade, IsTakenBack};
ghost use Rattle.pliron_rewrite_calls.specs.Preparing.{IsCallPrepared, IsLedOn};

use crate::erasing::erase_new_blocks;
use crate::inlining::make_jump;
use crate::splitting::{count_behind, move_behind};
use pliron_core::{BasicBlock, Context, Head, Operation, Ptr, Rewriter, Value};
use pliron_dialect_calls::InliningDialect;
use pliron_laws::reads::{all_arguments, all_results};
use pliron_laws::{Dialect, OptError, Room};
use pliron_rewrite_arguments::one_value_replaces_argument;
use pliron_rewrite_copies::{blocks_are_split, operands_are_renamed_back};
use std::alloc::Global;

// The value `new`, which has no uses, gets those of `old`.
fn hand_over<R: Rewriter>(ctx: &mut Context, old: Value, new: Value, rewriter: &mut R)
    requires old { IsDefined ctx.old.tree old }
    requires new { IsDefined ctx.old.tree new }
    requires unused { (k : ℕ) → In new (operands_of ctx.old.tree k) → ⊥ }
    ensures replaced { ctx.new.tree ≡ after_replacing ctx.old.tree old new }
    ensures point { R.point rewriter.new ≡ R.point rewriter.old }
{
    ctx.well_formed();
    match rewriter.replace_value_uses_with(ctx, old, new) {
        Ok(()) => {}
        Err(_) => unreachable!(),
    }
}

// The uses of each of these values, one after the other, become uses of the value at its place among those, which have
// none.
fn hand_over_all<R: Rewriter>(ctx: &mut Context, olds: &[Value], news: &[Value], rewriter: &mut R)
    requires olds { (v : ℕ) → In v olds.now → IsDefined ctx.old.tree v }
    requires news { (v : ℕ) → In v news.now → IsDefined ctx.old.tree v }
    requires long { length olds.now ≡ length news.now }
    requires apart { (i j v : ℕ) → slice_get news.now i ≡ Some v → slice_get news.now j ≡ Some v → i ≡ j }
    requires unused { (v k : ℕ) → In v news.now → In v (operands_of ctx.old.tree k) → ⊥ }
    ensures replaced { ctx.new.tree ≡ forwarded_uses ctx.old.tree olds.now news.now }
    ensures point { R.point rewriter.new ≡ R.point rewriter.old }
{
    for i in 0..olds.len() {
        hand_over(ctx, olds[i], news[i], rewriter);
    }
}

// The results' uses become uses of the arguments of the block, which has as many, and a jump to it is made, in no block,
// with the results. On refused memory all is taken back.
fn lead_to<R: Rewriter>(
    alloc: Global,
    head: Head,
    call: Ptr<Operation>,
    block: Ptr<BasicBlock>,
    ctx: &mut Context,
    rewriter: &mut R,
) -> Result<Ptr<Operation>, OptError>
    requires live { IsLive ctx.old.tree call }
    requires block { IsBlock ctx.old.tree block }
    requires long { length (results_of ctx.old.tree call) ≡ length (arguments_of ctx.old.tree block) }
    requires unused { (v k : ℕ) → In v (arguments_of ctx.old.tree block) → In v (operands_of ctx.old.tree k) → ⊥ }
    ensures made { IfOk result (λ jump. IsJumpMade (forwarded_uses ctx.old.tree (results_of ctx.old.tree call)
        (arguments_of ctx.old.tree block)) ctx.new.tree jump head (results_of ctx.old.tree call) (block ∷ [])) }
    ensures refused { OnErr result (IsTakenBack ctx.old.tree ctx.new.tree) }
    ensures memory { IsOkUnless result OptError.Memory }
    ensures point { R.point rewriter.new ≡ R.point rewriter.old }
{
    ctx.well_formed();
    let results = all_results(alloc, call, ctx)?;
    let arguments = all_arguments(alloc, block, ctx)?;
    hand_over_all(ctx, results.as_slice(), arguments.as_slice(), rewriter);
    ctx.well_formed();
    match make_jump(head, results.as_slice(), block, ctx, rewriter) {
        Ok(jump) => Ok(jump),
        Err(refusal) => {
            ctx.well_formed();
            hand_over_all(ctx, arguments.as_slice(), results.as_slice(), rewriter);
            Err(refusal)
        }
    }
}

/// What stands behind the call goes to a new block, the last one of the region, and the call's block ends with a jump there
/// with the results of the call: each later use of a result is a use of an argument of the new block. So the call is as
/// `inline_call` asks. It is a whole rewrite, or none, and runs are kept.
///
/// Asks that the call is live in a block, has neither regions nor successors, and isn't the last of its block. Errors:
/// allocation failure, which leaves the tree as it was, but for erased handles. Cost: linear in the operations behind the
/// call and the uses of its results. Of the calls in a block the last one is prepared first, and so on to the front: then
/// each operation moves at most once. The way of LLVM's `splitBasicBlock` and MLIR's `inlineRegion`.
pub fn prepare_call<D: Dialect + InliningDialect, R: Rewriter + Room>(
    alloc: Global,
    call: Ptr<Operation>,
    ctx: &mut Context,
    rewriter: &mut R,
) -> Result<(), OptError>
    requires live { IsLive ctx.old.tree call }
    requires behind { IsSome (next_of ctx.old.tree call) }
    requires childless { regions_of ctx.old.tree call ≡ [] }
    requires no_successors { successors_of ctx.old.tree call ≡ [] }
    ensures prepared { OnOk result (IsCallPrepared D.meaning ctx.new.tree call) }
    ensures led { OnOk result (IsLedOn D.meaning ctx.old.tree ctx.new.tree call) }
    ensures refused { OnErr result (IsSameTree ctx.old.tree ctx.new.tree) }
    ensures memory { IsOkUnless result OptError.Memory }
    ensures runs { KeepsAllRuns D.meaning ctx.old.tree ctx.new.tree }
    ensures point { R.point rewriter.new ≡ R.point rewriter.old }
{
    ctx.well_formed();
    blocks_are_split();
    operands_are_renamed_back();
    one_value_replaces_argument::<D>();
    let done = split_and_lead::<D, R>(alloc, call, ctx, rewriter);
    ctx.well_formed();
    done
}

// The same, by its steps.
fn split_and_lead<D: InliningDialect, R: Rewriter + Room>(
    alloc: Global,
    call: Ptr<Operation>,
    ctx: &mut Context,
    rewriter: &mut R,
) -> Result<(), OptError>
    ghost t: { Tree }
    requires tree { t ≡ ctx.old.tree }
    requires live { IsLive ctx.old.tree call }
    requires behind { IsSome (next_of ctx.old.tree call) }
    ensures led { OnOk result (IsLedOn D.meaning ctx.old.tree ctx.new.tree call) }
    ensures refused { OnErr result (IsSameTree ctx.old.tree ctx.new.tree) }
    ensures longer { length ctx.old.tree.operations ≤ length ctx.new.tree.operations }
    ensures memory { IsOkUnless result OptError.Memory }
    ensures point { R.point rewriter.new ≡ R.point rewriter.old }
{
    ctx.well_formed();
    let Some(block) = call.get_parent_block(ctx) else {
        unreachable!()
    };
    let Some(region) = block.get_parent_region(ctx) else {
        unreachable!()
    };
    let count = call.num_result(ctx);
    let head = D::jump_head(alloc, count)?;
    let moves = count_behind(call, block, ctx);
    // what moves, the uses of each result, also for the way back, the jump and the block
    rewriter.room(
        alloc,
        moves
            .saturating_add(count.saturating_mul(2))
            .saturating_add(3),
    )?;
    let last = region.get_tail(ctx);
    let new = BasicBlock::create(ctx, region, count)?;
    ctx.well_formed();
    match lead_to(alloc, head, call, new, ctx, rewriter) {
        Ok(jump) => {
            ctx.well_formed();
            move_behind(ctx, call, block, new, rewriter);
            ctx.well_formed();
            rewriter.move_operation_to_end(ctx, jump, block);
            Ok(())
        }
        Err(refusal) => {
            erase_new_blocks(region, &last, ctx, rewriter);
            Err(refusal)
        }
    }
}
