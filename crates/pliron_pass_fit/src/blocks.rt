//! What is asked of the regions and blocks inside a root, but for dominance of uses.
ghost use Rattle.std.specs.Prelude.{◌≡◌, ℕ, Some, OnOk, IfErr, slice_get};
ghost use Rattle.pliron_core.specs.Tree.{In, IsLive, IsBlock, IsRegion, IsDefined, IsWithin, HoldsBlock, regions_of, arguments_of, block_parent_of};
ghost use Rattle.pliron_core.specs.Changes.{IsDefinedInside};
ghost use Rattle.pliron_core.specs.Walks.{preorder};
ghost use Rattle.pliron_laws.specs.EdgeChecks.{HasOwnUsers};
ghost use Rattle.pliron_pass_fit.specs.Checks.{IsStop, IsUsedInside, IsFitBlock, IsFitRegion, IsFitHolder};

use crate::contents::is_inside;
use crate::violation::{CheckStop, Violation};
use indexmap::IndexSet;
use pliron_core::{BasicBlock, Context, Operation, Ptr, Region, Value};
use pliron_laws::edges::{is_directly_in, region_of};
use pliron_laws::{Dialect, is_admitted};

// Only what is inside the root uses the value.
pub(crate) fn check_uses<D: Dialect>(
    root: Ptr<Operation>,
    contents: &IndexSet<Ptr<Operation>>,
    value: Value,
    ctx: &Context,
) -> Result<(), CheckStop>
    requires contents { contents.now.keys ≡ preorder ctx.now.tree root }
    requires value { IsDefined ctx.now.tree value }
    requires inside { IsDefinedInside ctx.now.tree root value }
    ensures ok { OnOk result (IsUsedInside ctx.now.tree root value) }
    ensures err { IfErr result (λ e. IsStop D.meaning ctx.now.tree root e) }
{
    ctx.well_formed();
    for i in 0..value.num_use(ctx) {
        let (user, place) = value.get_use(ctx, i);
        if !is_inside(root, contents, user, ctx) {
            return Err(CheckStop::Found(Violation::UsedOutside(user, place)));
        }
    }
    Ok(())
}

// Edges to the block come from its own region.
fn check_edges_to<D: Dialect>(
    root: Ptr<Operation>,
    block: Ptr<BasicBlock>,
    ctx: &Context,
) -> Result<(), CheckStop>
    requires block { IsBlock ctx.now.tree block }
    requires held { HoldsBlock ctx.now.tree root block }
    ensures ok { OnOk result (HasOwnUsers ctx.now.tree block) }
    ensures err { IfErr result (λ e. IsStop D.meaning ctx.now.tree root e) }
{
    ctx.well_formed();
    let region = region_of(ctx, block);
    for i in 0..block.num_use(ctx) {
        let (user, _) = block.get_use(ctx, i);
        if !is_directly_in(ctx, user, region) {
            return Err(CheckStop::Found(Violation::EdgeNotLast(user)));
        }
    }
    Ok(())
}

// Edges to the block come from its own region, and its arguments are used inside the root.
fn check_block<D: Dialect>(
    root: Ptr<Operation>,
    contents: &IndexSet<Ptr<Operation>>,
    block: Ptr<BasicBlock>,
    ctx: &Context,
) -> Result<(), CheckStop>
    requires contents { contents.now.keys ≡ preorder ctx.now.tree root }
    requires block { IsBlock ctx.now.tree block }
    requires held { HoldsBlock ctx.now.tree root block }
    ensures ok { OnOk result (IsFitBlock ctx.now.tree root block) }
    ensures err { IfErr result (λ e. IsStop D.meaning ctx.now.tree root e) }
{
    ctx.well_formed();
    check_edges_to::<D>(root, block, ctx)?;
    for i in 0..block.num_argument(ctx) {
        check_uses::<D>(root, contents, block.get_argument(ctx, i), ctx)?;
    }
    Ok(())
}

// The region has dominance, and its blocks are fit.
fn check_region<D: Dialect>(
    root: Ptr<Operation>,
    contents: &IndexSet<Ptr<Operation>>,
    holder: Ptr<Operation>,
    region: Ptr<Region>,
    ctx: &Context,
) -> Result<(), CheckStop>
    requires contents { contents.now.keys ≡ preorder ctx.now.tree root }
    requires region { IsRegion ctx.now.tree region }
    requires held { In region (regions_of ctx.now.tree holder) }
    requires within { IsWithin ctx.now.tree root holder }
    ensures ok { OnOk result (IsFitRegion ctx.now.tree root region) }
    ensures err { IfErr result (λ e. IsStop D.meaning ctx.now.tree root e) }
{
    ctx.well_formed();
    if !region.has_ssa_dominance(ctx) {
        return Err(CheckStop::Found(Violation::NoDominance(region)));
    }
    let mut at = region.get_head(ctx);
    while let Some(block) = at {
        check_block::<D>(root, contents, block, ctx)?;
        at = block.get_next(ctx);
    }
    Ok(())
}

// The dialect admits the operation, which is the root or is inside it, and its regions are fit.
pub(crate) fn check_holder<D: Dialect>(
    root: Ptr<Operation>,
    contents: &IndexSet<Ptr<Operation>>,
    op: Ptr<Operation>,
    ctx: &Context,
) -> Result<(), CheckStop>
    requires contents { contents.now.keys ≡ preorder ctx.now.tree root }
    requires live { IsLive ctx.now.tree op }
    requires within { IsWithin ctx.now.tree root op }
    ensures ok { OnOk result (IsFitHolder D.meaning ctx.now.tree root op) }
    ensures err { IfErr result (λ e. IsStop D.meaning ctx.now.tree root e) }
{
    if !is_admitted::<D>(op, ctx) {
        return Err(CheckStop::Found(Violation::NotAdmitted(op)));
    }
    for i in 0..op.num_region(ctx) {
        check_region::<D>(root, contents, op, op.get_region(ctx, i), ctx)?;
    }
    Ok(())
}
