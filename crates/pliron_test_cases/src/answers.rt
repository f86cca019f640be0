//! What a dialect answers of an operation, as texts, asked through the traits.
use crate::cases::block_of;
use crate::{Dialect, Interface};
use pliron_core::{Context, Operation, Ptr};
use std::alloc::Global;

/// The answer on side effects; none where the dialect doesn't admit the operation. Cost: constant, and the
/// dialect's answer.
pub fn effects<D: Dialect>(alloc: Global, ctx: &Context, op: Ptr<Operation>) -> Option<String> {
    if !op.is_live(ctx) || !D::admits(op, ctx) {
        return None;
    }
    format!(in alloc; "{:?}", D::has_side_effects(op, ctx)).ok()
}

/// The interfaces that the operation implements, a blank before each. Cost: one answer of the dialect for
/// each interface.
pub fn interfaces<D: Dialect>(alloc: Global, ctx: &Context, op: Ptr<Operation>) -> Option<String> {
    let all = [
        Interface::SideEffects,
        Interface::BlockArgRemoval,
        Interface::ConstFold,
        Interface::BranchFold,
        Interface::Branch,
        Interface::Terminator,
        Interface::RegionBranch,
    ];
    if !op.is_live(ctx) {
        return None;
    }
    let mut names = String::new(alloc);
    for interface in &all {
        if D::implements(op, ctx, *interface) {
            write!(names, " {interface:?}").ok()?;
        }
    }
    Some(names)
}

/// The operand that is named for this argument of the entry of the operation's region with this index; none
/// where there is no such argument. Cost: the dialect's answer.
pub fn entry_operand_of<D: Dialect>(
    alloc: Global,
    ctx: &Context,
    op: Ptr<Operation>,
    region: usize,
    argument: usize,
) -> Option<String> {
    if !op.is_live(ctx) || region >= op.num_region(ctx) {
        return None;
    }
    let entry = op.get_region(ctx, region).get_head(ctx)?;
    if argument >= entry.num_argument(ctx) {
        return None;
    }
    format!(in alloc; "{:?}", D::entry_operand(op, ctx, region, argument)).ok()
}

/// Whether arguments of the block with this index in the operation may be removed. Cost: the index, and the
/// dialect's answer.
pub fn removable<D: Dialect>(
    alloc: Global,
    ctx: &Context,
    op: Ptr<Operation>,
    index: usize,
) -> Option<String> {
    let block = block_of(ctx, op, index)?;
    if !op.is_live(ctx) || !block.is_live(ctx) {
        return None;
    }
    let region = block.get_parent_region(ctx)?;
    if region.get_parent_op(ctx) != op {
        return None;
    }
    format!(in alloc; "{:?}", D::can_remove_block_args(op, ctx, block)).ok()
}
