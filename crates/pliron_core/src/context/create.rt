//! Creating operations and blocks.
ghost use Rattle.std.specs.Prelude.{◌≡◌, ◌+◌, ◌<◌, ◌≤◌, ◌^◌, ◌++◌, [], length, map, replicate, IfOk, OnOk, OnErr, vec_len, vec_capacity};
ghost use Rattle.std.specs.List.{range_with_len};
ghost use Rattle.pliron_core.specs.Keys.{key_limit};
ghost use Rattle.pliron_core.specs.Tree.{IsRegion};
ghost use Rattle.pliron_core.specs.Writes.{after_creating, block_created, region_slots};

use super::{Context, NoMemory, OperationEntry, RegionSlot};
use crate::attrs::Head;
use crate::inline_list::InlineList;
use crate::keys::{BasicBlock, Operation, Ptr, Region, next_key};
use crate::links::Links;
use std::alloc::Global;

impl Operation {
    /// A new operation in no block, with so many new results and so many new, empty regions, and
    /// without operands and successors.
    ///
    /// Errors: allocation failure, which changes nothing.
    /// Cost: one step for each result and each region, amortised.
    #[inline(always)]
    pub fn create(
        ctx: &mut Context,
        head: Head,
        results: usize,
        regions: usize,
    ) -> Result<Ptr<Operation>, NoMemory>
        ensures key { IfOk result (λ op. op ≡ length ctx.old.tree.operations) }
        ensures ok { OnOk result (ctx.new.tree ≡ after_creating ctx.old.tree head results regions) }
        ensures block_uses { OnOk result (ctx.new.block_uses ≡ ctx.old.block_uses) }
        ensures err { OnErr result (ctx.new ≡ ctx.old) }
    {
        let alloc = ctx.alloc;
        ctx.operations.reserve(1)?;
        ctx.operands.reserve(1, results)?;
        ctx.successors.reserve(1, 0)?;
        ctx.order.reserve(1, 0)?;
        ctx.layout.reserve(0, regions)?;
        ctx.slots.reserve(regions)?;
        next_key(ctx.slots.len() + regions)?;
        let region_keys = region_keys(alloc, ctx.slots.len(), regions)?;
        let op = Ptr::new(next_key(ctx.operations.len())?);
        let result_keys = ctx.arguments.add_results(alloc, op, results)?;
        ctx.order.add_node();
        ctx.successors.add_user(alloc);
        ctx.operands.add_user(alloc);
        add_regions(&mut ctx.slots, &mut ctx.layout, op, regions);
        ctx.operands.add_targets(alloc, results);
        ctx.operations.push_reserved(OperationEntry {
            head: Some(head),
            results: result_keys,
            regions: region_keys,
        });
        Ok(op)
    }
}

impl BasicBlock {
    /// A new block with so many new arguments and without operations, the last of the region.
    ///
    /// Asks that the region is live. Errors: allocation failure, which changes nothing.
    /// Cost: one step for each argument, amortised.
    #[inline(always)]
    pub fn create(
        ctx: &mut Context,
        region: Ptr<Region>,
        arguments: usize,
    ) -> Result<Ptr<BasicBlock>, NoMemory>
        requires { IsRegion ctx.old.tree region }
        ensures key { IfOk result (λ block. block ≡ length ctx.old.tree.bodies) }
        ensures ok { OnOk result (ctx.new.tree ≡ block_created ctx.old.tree region arguments) }
        ensures err { OnErr result (ctx.new ≡ ctx.old) }
    {
        let alloc = ctx.alloc;
        ctx.layout.agree();
        ctx.operands.reserve(0, arguments)?;
        ctx.successors.reserve(0, 1)?;
        ctx.order.reserve(0, 1)?;
        ctx.layout.reserve(1, 0)?;
        next_key(ctx.arguments.num_blocks())?;
        ctx.arguments.add_block(alloc, arguments)?;
        let block = Ptr::new(ctx.order.add_list());
        ctx.successors.add_target(alloc);
        let key = ctx.layout.add_node();
        ctx.layout.push_back(region.index(), key);
        ctx.operands.add_targets(alloc, arguments);
        Ok(block)
    }
}

// So many regions, by ascending handle.
#[tactic(auto, using(crate::proofs::GrownLemmas::range_more))]
#[inline(always)]
fn region_keys(
    alloc: Global,
    first: usize,
    count: usize,
) -> Result<InlineList<Ptr<Region>>, NoMemory>
    requires { first + count ≤ key_limit }
    ensures { IfOk result (λ row. row ≡ range_with_len first count) }
{
    let mut row = InlineList::new(alloc);
    for i in 0..count {
        row.push(Ptr::new((first + i) as u32))?;
    }
    Ok(row)
}

// The regions of a new operation, without blocks.
#[inline(always)]
fn add_regions(slots: &mut Vec<RegionSlot>, layout: &mut Links, op: Ptr<Operation>, count: usize)
    requires slots { vec_len slots.old + count ≤ vec_capacity slots.old }
    requires lists { count ≤ layout.old.list_room }
    requires few { length layout.old.lists + count ≤ key_limit }
    ensures slots { slots.new.items ≡ slots.old.items ++ region_slots op count }
    ensures lists { layout.new.lists ≡ layout.old.lists ++ replicate count [] }
    ensures owners { layout.new.owners ≡ layout.old.owners }
{
    for index in 0..count {
        slots.push_reserved(RegionSlot { op, index });
        layout.add_list();
    }
}
