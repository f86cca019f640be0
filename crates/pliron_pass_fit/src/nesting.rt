//! The way from a root to an operation inside it.
//!
//! What is around a user is a set that the walk updates by one step at each operation, so the walk is linear
//! however deep the nest is; climbing from each use would cost its depth.
ghost use Rattle.std.specs.Prelude.{◌≡◌, ℕ, Some, OnOk, IsOkUnless, MatchOption};
ghost use Rattle.pliron_core.specs.Tree.{In, IsLive, IsRegion, parent_operation_of};
ghost use Rattle.pliron_core.specs.Changes.{HoldsRegion};
ghost use Rattle.pliron_pass_fit.specs.Nesting.{IsWay, IsAround};

use indexmap::IndexSet;
use pliron_core::{BasicBlock, Context, Operation, Ptr, Region};
use pliron_laws::OptError;
use pliron_laws::edges::region_of;

// Makes the way lead to the operation, whatever it led to before. The operation's parent operation is on it.
pub(crate) fn lead_to(
    way: &mut IndexSet<Ptr<Operation>>,
    op: Ptr<Operation>,
    ctx: &Context,
) -> Result<(), OptError>
    requires live { IsLive ctx.now.tree op }
    requires held { (h : ℕ) × (parent_operation_of ctx.now.tree op ≡ Some h) × In h way.old.keys }
    ensures led { OnOk result ((root at : ℕ) → IsWay ctx.now.tree root at way.old.keys
        → IsWay ctx.now.tree root op way.new.keys) }
    ensures memory { IsOkUnless result OptError.Memory }
{
    ctx.well_formed();
    let Some(holder) = op.get_parent_op(ctx) else {
        unreachable!()
    };
    let Some(above) = way.get_index_of(&holder) else {
        unreachable!()
    };
    let long = way.len();
    prove!(above < long);
    way.truncate(above + 1);
    way.insert(op)?;
    Ok(())
}

// An operation, and the block that it is in.
#[derive(Clone, Copy, Drop)]
pub(crate) struct BlockPlace {
    pub op: Ptr<Operation>,
    pub block: Ptr<BasicBlock>,
}

// The operation directly in the region that is the user or holds it.
pub(crate) fn find_around(
    way: &IndexSet<Ptr<Operation>>,
    region: Ptr<Region>,
    ctx: &Context,
) -> Option<BlockPlace>
    requires region { IsRegion ctx.now.tree region }
    requires way { (root : ℕ) × (user : ℕ) × IsWay ctx.now.tree root user way.now.keys }
    ensures { (root user : ℕ) → IsWay ctx.now.tree root user way.now.keys → HoldsRegion ctx.now.tree root region →
        MatchOption result
        ((a b : ℕ) → IsAround ctx.now.tree user region a b → ⊥)
        (λ place. IsAround ctx.now.tree user region place.op place.block) }
{
    ctx.well_formed();
    let Some(above) = way.get_index_of(&region.get_parent_op(ctx)) else {
        return None;
    };
    let long = way.len();
    prove!(above < long);
    let Some(around) = way.get_index(above + 1) else {
        return None;
    };
    let Some(block) = around.get_parent_block(ctx) else {
        return None;
    };
    if region_of(ctx, block) != region {
        return None;
    }
    Some(BlockPlace { op: *around, block })
}
