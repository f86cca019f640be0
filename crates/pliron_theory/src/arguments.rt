//! Operands that are removed with an argument of a block.
ghost use Rattle.std.specs.Prelude.{◌≡◌, length};
ghost use Rattle.pliron_core.specs.Tree.{IsBlock, uses_of};
ghost use Rattle.pliron_theory.specs.Dropping.{EdgesLose, AreOfBranches, GivePlaces};

use pliron_core::{BasicBlock, Context, Ptr};
use pliron_laws::Dialect;

/// Each edge to the block that forwards an operand at place `j` loses it, one edge after the other. With
/// `remove_argument` thereafter this is the rewrite of `theory::unused_arguments_go`.
///
/// Asks that the block is live, that all edges to it are of branches that the dialect admits, and for each of
/// them, in the order of the block's uses, whether it forwards such an operand. Takes no memory.
/// Cost: one `remove_successor_operand` for each such edge.
pub fn lose_forwarded<D: Dialect>(
    ctx: &mut Context,
    block: Ptr<BasicBlock>,
    j: usize,
    forwards: &[bool],
)
    requires block { IsBlock ctx.old.tree block }
    requires count { length forwards.now ≡ length (uses_of ctx.old.block_uses block) }
    requires branches { AreOfBranches D.meaning ctx.old.tree (uses_of ctx.old.block_uses block) }
    requires places { GivePlaces D.meaning ctx.old.tree j (uses_of ctx.old.block_uses block) forwards.now }
    ensures lost { EdgesLose D.meaning D.shortened j (uses_of ctx.old.block_uses block) ctx.old.tree ctx.new.tree }
    ensures block_uses { ctx.new.block_uses ≡ ctx.old.block_uses }
{
    ctx.well_formed();
    for i in 0..forwards.len() {
        if forwards[i] {
            ctx.well_formed();
            let (op, edge) = block.get_use(ctx, i);
            D::remove_successor_operand(op, ctx, edge, j);
        }
    }
}
