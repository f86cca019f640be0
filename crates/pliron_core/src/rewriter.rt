//! Rewriting a tree through a value that knows where to insert.
ghost use Rattle.std.specs.Prelude.{◌≡◌, [], Some, None, IsSome, IsOk, OnOk, OnErr};
ghost use Rattle.pliron_core.specs.Tree.{IsLive, IsBlock, IsDefined, HoldsBlock, parent_of, uses_of};
ghost use Rattle.pliron_core.specs.Writes.{after_replacing, moved_last};
ghost use Rattle.pliron_core.specs.Erased.{IsSelfContained, IsSelfContainedBlock, after_erasing, block_erased};
ghost use Rattle.pliron_core.specs.Insertion.{IsPointFor, after_inserting, point_of};

use crate::context::edit::replace_uses;
use crate::context::erase::{erase_block, erase_operation};
use crate::context::place::{move_last, place_before, place_first};
use crate::context::{Context, NoMemory};
use crate::keys::{BasicBlock, Operation, Ptr, Value};

/// Where the next operation is inserted.
#[derive(Clone, Copy, Debug, PartialEq, Eq)]
pub enum OpInsertionPoint {
    /// No point was set yet.
    Unset,
    /// Directly before this operation.
    BeforeOperation(Ptr<Operation>),
    /// As the first of this block.
    AtBlockStart(Ptr<BasicBlock>),
}

/// What changes a tree in whole steps, and may report each to a listener.
///
/// What has no `Result`, and a replacement by a value without uses, takes no memory in the tree, but may
/// take some in a listener.
pub trait Rewriter {
    ghost use Rattle.pliron_core.specs.declared.rewriter.OpInsertionPoint.{OpInsertionPoint};

    /// Where it inserts.
    ghost point: { Self → OpInsertionPoint };

    /// Where it inserts. Takes no memory. Cost: constant.
    fn insertion_point(&self) -> OpInsertionPoint
        ensures { result ≡ point self.now };

    /// From now on inserts directly before this operation.
    fn set_insertion_point_before_operation(&mut self, op: Ptr<Operation>)
        ensures { point self.new ≡ OpInsertionPoint.BeforeOperation op };

    /// From now on inserts as the first of this block.
    fn set_insertion_point_to_block_start(&mut self, block: Ptr<BasicBlock>)
        ensures { point self.new ≡ OpInsertionPoint.AtBlockStart block };

    /// The operation becomes the direct predecessor of the named operation, or the first of the named
    /// block. The point stays.
    ///
    /// Asks that the operation is live, in no block; that a point is set, and that what it names is live and
    /// isn't the operation or inside it; a named operation is in a block.
    /// Errors: allocation failure, which changes nothing. Cost: constant.
    fn insert_operation(&mut self, ctx: &mut Context, op: Ptr<Operation>) -> Result<(), NoMemory>
        requires live { IsLive ctx.old.tree op }
        requires free { parent_of ctx.old.tree op ≡ None }
        requires point { IsPointFor ctx.old.tree (point self.old) op }
        ensures ok { OnOk result (ctx.new ≡ record ctx.old {
          tree = after_inserting ctx.old.tree (point self.old)
              op;
        }) }
        ensures err { OnErr result (ctx.new ≡ ctx.old) }
        ensures point { point self.new ≡ point self.old };

    /// Every use of `old` becomes one of `new`.
    ///
    /// Asks that both values are live. Errors: allocation failure, which changes nothing, and never where `new`
    /// has no use yet: it takes over the room that the uses of `old` have.
    /// Cost: the number of uses of `old`.
    fn replace_value_uses_with(
        &mut self,
        ctx: &mut Context,
        old: Value,
        new: Value,
    ) -> Result<(), NoMemory>
        requires old { IsDefined ctx.old.tree old }
        requires new { IsDefined ctx.old.tree new }
        ensures ok { OnOk result (ctx.new.tree ≡ after_replacing ctx.old.tree old new) }
        ensures block_uses { ctx.new.block_uses ≡ ctx.old.block_uses }
        ensures unused { uses_of ctx.old.value_uses new ≡ [] → IsOk result }
        ensures err { OnErr result (ctx.new ≡ ctx.old) }
        ensures point { point self.new ≡ point self.old };

    /// Moves the operation from the block that has it, if one does, to the end of this one.
    ///
    /// Asks that both are live, and that the operation doesn't hold the block. Takes no memory.
    /// Cost: constant.
    fn move_operation_to_end(
        &mut self,
        ctx: &mut Context,
        op: Ptr<Operation>,
        block: Ptr<BasicBlock>,
    )
        requires live { IsLive ctx.old.tree op }
        requires block { IsBlock ctx.old.tree block }
        requires outside { HoldsBlock ctx.old.tree op block → ⊥ }
        ensures moved { ctx.new ≡ record ctx.old { tree = moved_last ctx.old.tree op block } }
        ensures point { point self.new ≡ point self.old };

    /// Erases the operation with its contents, at any depth.
    ///
    /// Asks that it is live, and that no value or block of it is used outside it. Takes no memory.
    /// Cost: what is erased, with its operands and successors.
    fn erase_operation(&mut self, ctx: &mut Context, op: Ptr<Operation>)
        requires live { IsLive ctx.old.tree op }
        requires contained { IsSelfContained ctx.old.tree op }
        ensures erased { ctx.new.tree ≡ after_erasing ctx.old.tree op }
        ensures point { point self.new ≡ point self.old };

    /// Erases the block with its contents, at any depth.
    ///
    /// Asks that it is live, and that neither it nor a value or block of it is used outside it. Takes no
    /// memory. Cost: what is erased, with its operands and successors.
    fn erase_block(&mut self, ctx: &mut Context, block: Ptr<BasicBlock>)
        requires block { IsBlock ctx.old.tree block }
        requires contained { IsSelfContainedBlock ctx.old.tree block }
        ensures erased { ctx.new.tree ≡ block_erased ctx.old.tree block }
        ensures point { point self.new ≡ point self.old };
}

/// The rewriter without a listener.
#[derive(Drop)]
pub struct IRRewriter {
    point: OpInsertionPoint,
}

impl IRRewriter {
    /// A rewriter whose insertion point isn't set yet. Cost: constant.
    pub fn new() -> Self
        ensures { point_of result ≡ OpInsertionPoint.Unset }
    {
        IRRewriter {
            point: OpInsertionPoint::Unset,
        }
    }
}

impl Default for IRRewriter {
    ghost use Rattle.pliron_core.specs.declared.rewriter.OpInsertionPoint.TheVariants.{Unset};

    ghost is_default = { λ r. point_of r ≡ Unset };

    fn default() -> Self {
        IRRewriter::new()
    }
}

impl Rewriter for IRRewriter {
    ghost point = { λ r. point_of r };

    fn insertion_point(&self) -> OpInsertionPoint {
        let IRRewriter { point } = self;
        *point
    }

    fn set_insertion_point_before_operation(&mut self, op: Ptr<Operation>) {
        self.point = OpInsertionPoint::BeforeOperation(op);
    }

    fn set_insertion_point_to_block_start(&mut self, block: Ptr<BasicBlock>) {
        self.point = OpInsertionPoint::AtBlockStart(block);
    }

    fn insert_operation(&mut self, ctx: &mut Context, op: Ptr<Operation>) -> Result<(), NoMemory> {
        ctx.well_formed();
        match &self.point {
            OpInsertionPoint::Unset => unreachable!(),
            OpInsertionPoint::BeforeOperation(at) => match at.get_parent_block(ctx) {
                Some(block) => place_before(ctx, op, *at, block),
                None => unreachable!(),
            },
            OpInsertionPoint::AtBlockStart(block) => place_first(ctx, op, *block),
        }
        Ok(())
    }

    fn replace_value_uses_with(
        &mut self,
        ctx: &mut Context,
        old: Value,
        new: Value,
    ) -> Result<(), NoMemory> {
        replace_uses(ctx, old, new)
    }

    fn move_operation_to_end(
        &mut self,
        ctx: &mut Context,
        op: Ptr<Operation>,
        block: Ptr<BasicBlock>,
    ) {
        move_last(ctx, op, block)
    }

    fn erase_operation(&mut self, ctx: &mut Context, op: Ptr<Operation>) {
        erase_operation(ctx, op)
    }

    fn erase_block(&mut self, ctx: &mut Context, block: Ptr<BasicBlock>) {
        erase_block(ctx, block)
    }
}
