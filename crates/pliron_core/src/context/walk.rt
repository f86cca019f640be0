//! Walks over the operations inside an operation. They take no memory.
ghost use Rattle.std.specs.Prelude.{◌≡◌, ◌+◌, ℕ, None, Some, IsTrue, IfSome, ◌↔◌};
ghost use Rattle.std.specs.Option.{ForSome};
ghost use Rattle.pliron_core.specs.Lists.{first_of, next_in};
ghost use Rattle.pliron_core.specs.Tree.{IsLive, IsBlock, IsRegion, IsInside, IsWithin, slot_of, parent_operation_of};
ghost use Rattle.pliron_core.specs.Walks.{children, preorder, HasExactContents};
ghost use Rattle.pliron_core.specs.WalkSteps.{first_in_blocks, first_in_regions, IsFollowedBy};

use super::{Context, RegionSlot};
use crate::keys::{Operation, Ptr};

impl Context {
    /// The law of walks: the contents of an operation are exactly the operations inside it, at any depth,
    /// each once and before its own contents. It changes nothing. Cost: constant.
    pub fn contents_agree(&self)
        ensures { (op : ℕ) → HasExactContents self.now.tree op }
    {
        self.well_formed();
    }

    // The first operation of this block, or of the blocks after it in its region.
    fn first_from_block(&self, from: Option<u32>) -> Option<u32>
        requires { ForSome from (λ block. IsBlock self.now.tree block) }
        ensures { result ≡ first_in_blocks self.now.tree from }
    {
        self.well_formed();
        let mut at = from;
        while let Some(block) = at {
            let first = self.order.head(block);
            if first.is_some() {
                return first;
            }
            at = self.layout.next(block);
        }
        None
    }

    // The first operation of the regions of `op` from this index on.
    fn first_from_region(&self, op: u32, index: usize) -> Option<u32>
        requires { IsLive self.now.tree op }
        ensures { result ≡ first_in_regions self.now.tree op index }
    {
        self.well_formed();
        let regions = &self.operations[op as usize].regions;
        for i in index..regions.len() {
            let region = regions.get(i).index();
            let first = self.first_from_block(self.layout.head(region));
            if first.is_some() {
                return first;
            }
        }
        None
    }

    // The first operation of the regions after this one, of the same operation.
    fn first_after_region(&self, region: u32) -> Option<u32>
        requires { IsRegion self.now.tree region }
        ensures { ForSome (slot_of self.now.tree region) (λ slot.
            result ≡ first_in_regions self.now.tree slot.op (slot.index + 1)) }
    {
        self.well_formed();
        let RegionSlot { op, index } = self.slots[region as usize];
        let count = self.operations[op.index() as usize].regions.len();
        let next = index + 1;
        if next == count {
            return None;
        }
        self.first_from_region(op.index(), next)
    }

    // The operation after `op` among those that its parent operation has.
    #[inline(always)]
    fn next_sibling(&self, op: u32) -> Option<u32>
        requires { IsLive self.now.tree op }
        ensures { ForSome (parent_operation_of self.now.tree op) (λ holder.
            result ≡ next_in op (children self.now.tree holder)) }
    {
        self.well_formed();
        let next = self.order.next(op);
        if next.is_some() {
            return next;
        }
        let block = self.order.owner(op)?;
        let next = self.first_from_block(self.layout.next(block));
        if next.is_some() {
            return next;
        }
        let region = self.layout.owner(block)?;
        self.first_after_region(region)
    }
}

impl Ptr<Operation> {
    /// The operation that this one is directly inside, if it is in a block. Asks that the operation is live
    /// (`is_live` tests it). Cost: constant.
    #[inline(always)]
    pub fn get_parent_op(self, ctx: &Context) -> Option<Ptr<Operation>>
        requires { IsLive ctx.now.tree self }
        ensures holder { result ≡ parent_operation_of ctx.now.tree self }
        ensures live { IfSome result (λ op. IsLive ctx.now.tree op) }
    {
        ctx.well_formed();
        let block = ctx.order.owner(self.index())?;
        let region = ctx.layout.owner(block)?;
        Some(ctx.slots[region as usize].op)
    }

    /// Whether this operation is inside `op`, at any depth; an operation is not inside itself. Asks that this
    /// one is live (`is_live` tests it). Cost: the depth of this one.
    #[inline(always)]
    pub fn is_inside(self, op: Ptr<Operation>, ctx: &Context) -> bool
        requires { IsLive ctx.now.tree self }
        ensures { IsTrue result ↔ IsInside ctx.now.tree op self }
    {
        ctx.well_formed();
        let mut above = self.get_parent_op(ctx);
        while let Some(holder) = above {
            if holder == op {
                return true;
            }
            above = holder.get_parent_op(ctx);
        }
        false
    }

    /// The first operation directly inside this one, in the order of its regions, their blocks and their
    /// bodies. Asks that the operation is live (`is_live` tests it). Cost: one step for each empty region and
    /// block before it.
    #[inline(always)]
    pub fn first_inside(self, ctx: &Context) -> Option<Ptr<Operation>>
        requires { IsLive ctx.now.tree self }
        ensures { result ≡ first_of (children ctx.now.tree self) None }
    {
        ctx.first_from_region(self.index(), 0)
            .map(|key| Ptr::new(key))
    }

    /// The operation after this one among those directly inside the parent operation of both. Asks that the
    /// operation is live (`is_live` tests it). Cost: one step for each empty region and block between them.
    #[inline(always)]
    pub fn next_beside(self, ctx: &Context) -> Option<Ptr<Operation>>
        requires { IsLive ctx.now.tree self }
        ensures { ForSome (parent_operation_of ctx.now.tree self) (λ holder.
            result ≡ next_in self (children ctx.now.tree holder)) }
    {
        ctx.next_sibling(self.index()).map(|key| Ptr::new(key))
    }

    // The operation that follows this one and its contents on the walk over `root`.
    #[inline(always)]
    fn next_after(self, root: Ptr<Operation>, ctx: &Context) -> Option<Ptr<Operation>>
        requires live { IsLive ctx.now.tree root }
        requires within { IsWithin ctx.now.tree root self }
        ensures { IsFollowedBy (preorder ctx.now.tree root) (preorder ctx.now.tree self) result }
    {
        ctx.well_formed();
        let mut at = self;
        while at != root {
            if let Some(next) = ctx.next_sibling(at.index()) {
                return Some(Ptr::new(next));
            }
            match at.get_parent_op(ctx) {
                Some(holder) => at = holder,
                None => unreachable!(),
            }
        }
        None
    }

    /// The operation after this one on the walk over `root` and its contents in pre-order, where an operation
    /// comes before its contents, and these come before its next sibling.
    ///
    /// Asks that `root` is live, and that this one is `root` or is inside it (`is_live` and `is_inside` test
    /// it). Cost: a call follows links, down to the first child or up to the first parent operation with a
    /// later child, so that the whole walk, from `root` until `None`, costs one step for each operation, block
    /// and region within `root`.
    #[inline(always)]
    pub fn next_in_preorder(self, root: Ptr<Operation>, ctx: &Context) -> Option<Ptr<Operation>>
        requires live { IsLive ctx.now.tree root }
        requires within { IsWithin ctx.now.tree root self }
        ensures next { result ≡ next_in self (preorder ctx.now.tree root) }
        ensures live { IfSome result (λ op. IsLive ctx.now.tree op) }
        ensures inside { IfSome result (λ op. IsInside ctx.now.tree root op) }
    {
        ctx.well_formed();
        match ctx.first_from_region(self.index(), 0) {
            Some(child) => Some(Ptr::new(child)),
            None => self.next_after(root, ctx),
        }
    }
}
