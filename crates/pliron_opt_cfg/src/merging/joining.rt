//! Merging one pair of blocks.
ghost use Rattle.std.specs.Prelude.{◌≡◌, ℕ, Some, OnOk, OnErr, length, take, IsOkUnless};
ghost use Rattle.pliron_core.specs.Tree.{IsBlock, arguments_of, block_parent_operation_of, block_parent_of, body_of};
ghost use Rattle.pliron_laws.specs.Linked.{IsWellLinked};
ghost use Rattle.pliron_rewrite_blocks.specs.Pairs.{IsMergeable, all_moved_last, forwarded_uses, after_joining, after_block_merging};
ghost use Rattle.pliron_rewrite_blocks.specs.Joining.{JoinsWell};
ghost use Rattle.pliron_opt_cfg.specs.Internal.MergeSteps.{IsReadyToJoin};

use crate::merging::pairs::Pair;
use pliron_core::{BasicBlock, Context, Operation, Ptr, Rewriter};
use pliron_laws::{Dialect, OptError, Room};
use std::alloc::Global;

// How many operations are in the block.
fn count_operations(block: Ptr<BasicBlock>, ctx: &Context) -> usize
    requires { IsBlock ctx.now.tree block }
    ensures { result ≡ length (body_of ctx.now.tree block) }
{
    ctx.well_formed();
    let mut count = 0;
    let mut at = block.get_head(ctx);
    while let Some(op) = at {
        count += 1;
        at = op.get_next(ctx);
    }
    count
}

// Each use of an argument of the second block becomes one of the value that is forwarded to it, one
// argument after the other.
fn forward_uses<D: Dialect, R: Rewriter + Room>(
    alloc: Global,
    ctx: &mut Context,
    pair: &Pair,
    rewriter: &mut R,
) -> Result<(), OptError>
    requires pair { IsMergeable D.meaning ctx.old.tree pair.now.first pair.now.second pair.now.jump
        pair.now.values.items }
    ensures ok { OnOk result (ctx.new.tree ≡ forwarded_uses ctx.old.tree (arguments_of ctx.old.tree pair.now.second)
        pair.now.values.items) }
    ensures refused { OnErr result ((n : ℕ) × (ctx.new.tree ≡ forwarded_uses ctx.old.tree (take n
        (arguments_of ctx.old.tree pair.now.second)) pair.now.values.items)) }
    ensures memory { IsOkUnless result OptError.Memory }
{
    ctx.well_formed();
    for i in 0..pair.values.len() {
        ctx.well_formed();
        let argument = pair.second.get_argument(ctx, i);
        rewriter.room(alloc, 1)?;
        rewriter.replace_value_uses_with(ctx, argument, pair.values[i])?;
    }
    Ok(())
}

// The operations of the second block become the last of the first one.
fn move_operations<R: Rewriter + Room>(
    ctx: &mut Context,
    first: Ptr<BasicBlock>,
    second: Ptr<BasicBlock>,
    rewriter: &mut R,
)
    requires first { IsBlock ctx.old.tree first }
    requires apart { second ≡ first → ⊥ }
    requires beside { block_parent_of ctx.old.tree second ≡ block_parent_of ctx.old.tree first }
    ensures { ctx.new.tree ≡ all_moved_last ctx.old.tree (body_of ctx.old.tree second) first }
{
    ctx.well_formed();
    while let Some(op) = second.get_head(ctx) {
        ctx.well_formed();
        rewriter.move_operation_to_end(ctx, op, first);
    }
}

// Merges the blocks of the pair, where nothing uses an argument of the second one.
fn join<D: Dialect, R: Rewriter + Room>(
    ctx: &mut Context,
    first: Ptr<BasicBlock>,
    second: Ptr<BasicBlock>,
    jump: Ptr<Operation>,
    rewriter: &mut R,
)
    requires ready { IsReadyToJoin D.meaning ctx.old.tree first second jump }
    ensures tree { ctx.new.tree ≡ after_joining ctx.old.tree first second jump }
    ensures well { JoinsWell D.meaning ctx.old.tree first second jump }
{
    ctx.well_formed();
    rewriter.erase_operation(ctx, jump);
    ctx.well_formed();
    move_operations(ctx, first, second, rewriter);
    ctx.well_formed();
    rewriter.erase_block(ctx, second);
    ctx.well_formed();
}

// Merges the pair. Errors: allocation failure, after which the uses of some first arguments are replaced and
// nothing else changed.
pub(crate) fn merge_pair<D: Dialect, R: Rewriter + Room>(
    alloc: Global,
    ctx: &mut Context,
    pair: &Pair,
    rewriter: &mut R,
) -> Result<(), OptError>
    requires pair { IsMergeable D.meaning ctx.old.tree pair.now.first pair.now.second pair.now.jump
        pair.now.values.items }
    requires linked { (holder : ℕ) → block_parent_operation_of ctx.old.tree pair.now.first ≡ Some holder
        → IsWellLinked D.meaning ctx.old.tree holder }
    ensures ok { OnOk result (ctx.new.tree ≡ after_block_merging ctx.old.tree pair.now.first pair.now.second
        pair.now.jump
        pair.now.values.items) }
    ensures well { OnOk result (JoinsWell D.meaning (forwarded_uses ctx.old.tree
        (arguments_of ctx.old.tree pair.now.second) pair.now.values.items) pair.now.first pair.now.second
        pair.now.jump) }
    ensures refused { OnErr result ((n : ℕ) × (ctx.new.tree ≡ forwarded_uses ctx.old.tree (take n
        (arguments_of ctx.old.tree pair.now.second)) pair.now.values.items)) }
    ensures memory { IsOkUnless result OptError.Memory }
{
    ctx.well_formed();
    let moves = count_operations(pair.second, ctx);
    forward_uses::<D, R>(alloc, ctx, pair, rewriter)?;
    // the jump, each operation that moves, and the block
    rewriter.room(alloc, moves + 2)?;
    join::<D, R>(ctx, pair.first, pair.second, pair.jump, rewriter);
    Ok(())
}
