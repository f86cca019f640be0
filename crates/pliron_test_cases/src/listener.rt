//! A rewriter with a listener, which counts the changes that come and those that it has room for.
ghost use Rattle.std.specs.Prelude.{◌≡◌};
ghost use Rattle.pliron_core.specs.Insertion.{point_of};

use crate::{OptError, Room};
use pliron_core::{
    BasicBlock, Context, IRRewriter, NoMemory, OpInsertionPoint, Operation, Ptr, Rewriter, Value,
};
use std::alloc::Global;

/// Counts the changes of one whole rewrite.
#[derive(Drop)]
pub struct CountingListener {
    rewriter: IRRewriter,
    // So many changes more may come.
    room: usize,
    // So many came where there was no room.
    missing: usize,
    // So many came.
    changes: usize,
}

impl CountingListener {
    /// There is no room yet, and no insertion point. Cost: constant.
    pub fn new() -> Self {
        CountingListener {
            rewriter: IRRewriter::new(),
            room: 0,
            missing: 0,
            changes: 0,
        }
    }

    /// There was room for each change that came. Cost: constant.
    pub fn had_room(&self) -> bool {
        self.missing == 0
    }

    /// How many changes came. Cost: constant.
    pub fn changes(&self) -> usize {
        self.changes
    }

    fn count(&mut self)
        ensures { self.new.rewriter ≡ self.old.rewriter }
    {
        if self.room == 0 {
            self.missing = self.missing.saturating_add(1);
        }
        self.room = self.room.saturating_sub(1);
        self.changes = self.changes.saturating_add(1);
    }
}

impl Rewriter for CountingListener {
    ghost point = { λ c. point_of c.rewriter };

    fn insertion_point(&self) -> OpInsertionPoint {
        self.rewriter.insertion_point()
    }

    fn set_insertion_point_before_operation(&mut self, op: Ptr<Operation>) {
        self.rewriter.set_insertion_point_before_operation(op);
    }

    fn set_insertion_point_to_block_start(&mut self, block: Ptr<BasicBlock>) {
        self.rewriter.set_insertion_point_to_block_start(block);
    }

    fn insert_operation(&mut self, ctx: &mut Context, op: Ptr<Operation>) -> Result<(), NoMemory> {
        self.count();
        self.rewriter.insert_operation(ctx, op)
    }

    fn replace_value_uses_with(
        &mut self,
        ctx: &mut Context,
        old: Value,
        new: Value,
    ) -> Result<(), NoMemory> {
        self.count();
        self.rewriter.replace_value_uses_with(ctx, old, new)
    }

    fn move_operation_to_end(
        &mut self,
        ctx: &mut Context,
        op: Ptr<Operation>,
        block: Ptr<BasicBlock>,
    ) {
        self.count();
        self.rewriter.move_operation_to_end(ctx, op, block)
    }

    fn erase_operation(&mut self, ctx: &mut Context, op: Ptr<Operation>) {
        self.count();
        self.rewriter.erase_operation(ctx, op)
    }

    fn erase_block(&mut self, ctx: &mut Context, block: Ptr<BasicBlock>) {
        self.count();
        self.rewriter.erase_block(ctx, block)
    }
}

impl Room for CountingListener {
    fn room(&mut self, _alloc: Global, n: usize) -> Result<(), OptError> {
        self.room = n;
        Ok(())
    }
}
