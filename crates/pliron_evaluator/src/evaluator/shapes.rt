//! How many values a visit or a jump of an operation is to pass.
ghost use Rattle.std.specs.Prelude.{◌≡◌, map, slice_index_or};
ghost use Rattle.pliron_core.specs.Tree.{IsLive, IsRegion, regions_of, successors_of};
ghost use Rattle.pliron_laws.specs.Tree.{block_at, entry_block, count_arguments};

use pliron_core::{Context, Operation, Ptr, Region};

/// How many arguments the entry block of the region has, 0 if there is none.
pub(super) fn num_region_argument(ctx: &Context, region: Ptr<Region>) -> usize
    requires { IsRegion ctx.now.tree region }
    ensures { result ≡ count_arguments (entry_block ctx.now.tree region) }
{
    match region.get_head(ctx) {
        Some(block) => block.num_argument(ctx),
        None => 0,
    }
}

/// How many arguments the entry block of the region with this index has, 0 if there is none.
pub(super) fn num_entry_argument(ctx: &Context, op: Ptr<Operation>, i: usize) -> usize
    requires { IsLive ctx.now.tree op }
    ensures { result ≡ slice_index_or (map (λ r. count_arguments (entry_block ctx.now.tree r))
        (regions_of ctx.now.tree op)) i 0 }
{
    if i < op.num_region(ctx) {
        num_region_argument(ctx, op.get_region(ctx, i))
    } else {
        0
    }
}

/// How many arguments the successor with this index has, 0 if there is none.
pub(super) fn num_target_argument(ctx: &Context, op: Ptr<Operation>, i: usize) -> usize
    requires { IsLive ctx.now.tree op }
    ensures { result ≡ slice_index_or (map (λ b. count_arguments (block_at ctx.now.tree b))
        (successors_of ctx.now.tree op)) i 0 }
{
    if i < op.num_successor(ctx) {
        op.get_successor(ctx, i).num_argument(ctx)
    } else {
        0
    }
}
