//! What can be read of a region.
ghost use Rattle.std.specs.Prelude.{◌≡◌, slice_get, None, Some, IfSome, IsTrue, ◌↔◌};
ghost use Rattle.pliron_core.specs.Tree.{IsLive, IsBlock, IsRegion, layout_of, region_parent_of, first_of, last_of};
ghost use Rattle.pliron_core.specs.Reads.{has_ssa};

use super::{Context, RegionSlot};
use crate::inline_list::InlineList;
use crate::keys::{BasicBlock, Operation, Ptr, Region};

// Whether the operation has the region at this index.
fn is_region_at(regions: &InlineList<Ptr<Region>>, i: usize, region: Ptr<Region>) -> bool
    ensures { IsTrue result ↔ (slice_get regions.now i ≡ Some region) }
{
    if i < regions.len() {
        regions.get(i) == region
    } else {
        false
    }
}

impl Ptr<Region> {
    /// Whether the region is live: it was created in this context and not erased since. Cost: constant.
    pub fn is_live(self, ctx: &Context) -> bool
        ensures { IsTrue result ↔ IsRegion ctx.now.tree self }
    {
        match ctx.slots.get(self.index() as usize) {
            Some(RegionSlot { op, index }) => match ctx.operations.get(op.index() as usize) {
                Some(entry) => is_region_at(&entry.regions, *index, self),
                None => false,
            },
            None => false,
        }
    }

    /// The operation of the region. Asks that the region is live (`is_live` tests it). Cost: constant.
    pub fn get_parent_op(self, ctx: &Context) -> Ptr<Operation>
        requires { IsRegion ctx.now.tree self }
        ensures parent { region_parent_of ctx.now.tree self ≡ Some result }
        ensures liveness { IsLive ctx.now.tree result }
    {
        ctx.well_formed();
        ctx.slots[self.index() as usize].op
    }

    /// The region's first block, if it has one. Asks that the region is live (`is_live` tests it). Cost:
    /// constant.
    pub fn get_head(self, ctx: &Context) -> Option<Ptr<BasicBlock>>
        requires { IsRegion ctx.now.tree self }
        ensures first { result ≡ first_of (layout_of ctx.now.tree self) None }
        ensures liveness { IfSome result (λ b. IsBlock ctx.now.tree b) }
    {
        ctx.well_formed();
        ctx.layout.head(self.index()).map(|key| Ptr::new(key))
    }

    /// The region's last block, if it has one. Asks that the region is live (`is_live` tests it). Cost:
    /// constant.
    pub fn get_tail(self, ctx: &Context) -> Option<Ptr<BasicBlock>>
        requires { IsRegion ctx.now.tree self }
        ensures last { result ≡ last_of None (layout_of ctx.now.tree self) }
        ensures liveness { IfSome result (λ b. IsBlock ctx.now.tree b) }
    {
        ctx.well_formed();
        ctx.layout.tail(self.index()).map(|key| Ptr::new(key))
    }

    /// Whether definitions dominate uses in the region, as the head of its operation says. Asks that the region
    /// is live (`is_live` tests it). Cost: constant.
    pub fn has_ssa_dominance(self, ctx: &Context) -> bool
        requires { IsRegion ctx.now.tree self }
        ensures { result ≡ has_ssa ctx.now.tree self }
    {
        self.get_parent_op(ctx).head(ctx).ssa
    }
}
