//! Which regions and blocks the simplification of control flow visits.
//!
//! It knows regions as graphs, and nothing of rewrites or dialects.
ghost use Rattle.std.specs.Prelude.{Some, ◌≡◌, ◌↔◌, ◌++◌, [], ℕ, IfOk, OnOk, IsOkUnless, IsTrue};
ghost use Rattle.std.specs.List.{flat_map};
ghost use Rattle.pliron_core.specs.Tree.{In, IsLive, IsBlock, IsRegion, body_of, regions_of, block_parent_operation_of, region_parent_of};
ghost use Rattle.pliron_laws.specs.Linked.{EdgesLast};
ghost use Rattle.pliron_graph_traversal.specs.Regions.{IsLawfulRegion};
ghost use Rattle.pliron_opt_cfg.specs.Visited.{IsReachedIn, IsVisitedBlock, OfOperation, OfBlock, OfRegion};
ghost use Rattle.pliron_opt_cfg.specs.Visits.{AreVisits};
ghost use Rattle.pliron_opt_cfg.specs.Internal.Seen.{HasGrown, blocks_postponed};

mod last_first;

use crate::visits::last_first::LastFirst;
use indexmap::IndexSet;
use pliron_core::{BasicBlock, Context, Operation, Ptr, Region};
use pliron_graph_traversal::DFSTraversal;
use pliron_laws::OptError;
use pliron_laws::reads::all_operations;
use std::alloc::{AllocError, Global};

/// What a call visits: the visited regions with SSA dominance, each before those that are nested in it, and the
/// blocks that their entries reach, each before those of the regions nested in it, and these before the blocks
/// that the search comes to after it.
#[derive(Drop)]
pub struct Visits {
    pub regions: Vec<Ptr<Region>>,
    pub blocks: Vec<Ptr<BasicBlock>>,
}

// A block that is listed once so many regions are on the worklist, and no more.
#[derive(Clone, Copy)]
struct PostponedBlock {
    block: Ptr<BasicBlock>,
    waiting: usize,
}

// The regions that wait for their visit, the next one last, and all that ever waited.
#[derive(Drop)]
struct RegionWorklist {
    seen: IndexSet<Ptr<Region>>,
    waiting: Vec<Ptr<Region>>,
}

// Adds the regions of the operation.
fn push_regions(
    ctx: &Context,
    op: Ptr<Operation>,
    regions: &mut Vec<Ptr<Region>>,
) -> Result<(), OptError>
    requires { IsLive ctx.now.tree op }
    ensures items { OnOk result (regions.new.items ≡ regions.old.items ++ regions_of ctx.now.tree op) }
    ensures memory { IsOkUnless result OptError.Memory }
{
    for i in 0..op.num_region(ctx) {
        regions.push(op.get_region(ctx, i))?;
    }
    Ok(())
}

// Adds the regions of the operations of the block.
fn push_nested(
    alloc: Global,
    ctx: &Context,
    block: Ptr<BasicBlock>,
    regions: &mut Vec<Ptr<Region>>,
) -> Result<(), OptError>
    requires { IsBlock ctx.now.tree block }
    ensures items { OnOk result (regions.new.items ≡ regions.old.items ++ flat_map (λ k. regions_of ctx.now.tree k)
        (body_of ctx.now.tree block)) }
    ensures memory { IsOkUnless result OptError.Memory }
{
    ctx.well_formed();
    let ops = all_operations(alloc, block, ctx)?;
    for op in &ops {
        push_regions(ctx, *op, regions)?;
    }
    Ok(())
}

// The nodes in the order in which the search came to them.
fn in_visiting_order(
    alloc: Global,
    search: &DFSTraversal<Ptr<BasicBlock>>,
) -> Result<Vec<Ptr<BasicBlock>>, AllocError>
    ensures { IfOk result (λ r. r.items ≡ search.now.pre) }
{
    let mut order = Vec::new(alloc);
    for node in search.pre_order() {
        order.push(node)?;
    }
    Ok(order)
}

// The blocks that the entry of the region reaches.
fn reached_blocks(
    alloc: Global,
    ctx: &Context,
    region: Ptr<Region>,
) -> Result<Vec<Ptr<BasicBlock>>, OptError>
    requires lawful { IsLawfulRegion ctx.now.tree region }
    ensures reached { IfOk result (λ r. (b : ℕ) → In b r.items ↔ IsReachedIn ctx.now.tree region b) }
    ensures memory { IsOkUnless result OptError.Memory }
{
    let graph = LastFirst { region };
    let search = DFSTraversal::new(alloc, ctx, &graph)?;
    Ok(in_visiting_order(alloc, &search)?)
}

// The blocks whose operations are visited where the region is.
fn entered_blocks(
    alloc: Global,
    ctx: &Context,
    region: Ptr<Region>,
) -> Result<Vec<Ptr<BasicBlock>>, OptError>
    requires lawful { IsLawfulRegion ctx.now.tree region }
    ensures entered { IfOk result (λ r. (b : ℕ) → In b r.items ↔ IsVisitedBlock ctx.now.tree region b) }
    ensures memory { IsOkUnless result OptError.Memory }
{
    if region.has_ssa_dominance(ctx) {
        return reached_blocks(alloc, ctx, region);
    }
    let mut blocks = Vec::new(alloc);
    if let Some(head) = region.get_head(ctx) {
        blocks.push(head)?;
    }
    Ok(blocks)
}

// The regions that were not seen are marked seen, and put on the worklist.
fn push_new(regions: &[Ptr<Region>], worklist: &mut RegionWorklist) -> Result<(), OptError>
    ensures grew { OnOk result (HasGrown regions.now worklist.old.seen.keys worklist.old.waiting.items
        worklist.new.seen.keys worklist.new.waiting.items) }
    ensures memory { IsOkUnless result OptError.Memory }
{
    for region in regions {
        if worklist.seen.insert(*region)? {
            worklist.waiting.push(*region)?;
        }
    }
    Ok(())
}

// The regions nested in these blocks are put on the worklist. Where the blocks are to be listed, each is
// postponed until those nested in it and in the blocks after it are visited.
fn enter(
    alloc: Global,
    ctx: &Context,
    entered: &[Ptr<BasicBlock>],
    listed: bool,
    worklist: &mut RegionWorklist,
    postponed: &mut Vec<PostponedBlock>,
) -> Result<(), OptError>
    requires { (b : ℕ) → In b entered.now → IsBlock ctx.now.tree b }
    ensures grown { OnOk result (HasGrown (flat_map (λ b. flat_map (λ k. regions_of ctx.now.tree k)
        (body_of ctx.now.tree b)) entered.now) worklist.old.seen.keys worklist.old.waiting.items
        worklist.new.seen.keys worklist.new.waiting.items) }
    ensures listed { OnOk result (IsTrue listed → blocks_postponed postponed.new.items ≡ blocks_postponed
        postponed.old.items ++ entered.now) }
    ensures other { OnOk result ((IsTrue listed → ⊥) → postponed.new.items ≡ postponed.old.items) }
    ensures memory { IsOkUnless result OptError.Memory }
{
    for block in entered {
        if listed {
            postponed.push(PostponedBlock {
                block: *block,
                waiting: worklist.waiting.len(),
            })?;
        }
        let mut nested = Vec::new(alloc);
        push_nested(alloc, ctx, *block, &mut nested)?;
        push_new(&nested, worklist)?;
    }
    Ok(())
}

// The last of the postponed blocks are listed, all those for which no region on the worklist comes before them.
fn list_postponed(
    postponed: &mut Vec<PostponedBlock>,
    waiting: usize,
    blocks: &mut Vec<Ptr<BasicBlock>>,
) -> Result<(), OptError>
    ensures same { OnOk result ((b : ℕ) → In b (blocks.new.items ++ blocks_postponed postponed.new.items) ↔ In b
        (blocks.old.items ++ blocks_postponed postponed.old.items)) }
    ensures all { OnOk result (waiting ≡ 0 → postponed.new.items ≡ []) }
    ensures memory { IsOkUnless result OptError.Memory }
{
    while let Some(last) = postponed.pop() {
        if last.waiting < waiting {
            postponed.push(last)?;
            return Ok(());
        }
        blocks.push(last.block)?;
    }
    Ok(())
}

// Visits the regions, and so on down: a region, and then what is nested in it, the last first. So the blocks
// come in the order of the list read backwards.
fn visit(alloc: Global, ctx: &Context, starts: &[Ptr<Region>]) -> Result<Visits, OptError>
    requires lawful { (r : ℕ) → In r starts.now → IsLawfulRegion ctx.now.tree r }
    ensures visits { IfOk result (λ v. AreVisits ctx.now.tree (λ r. In r starts.now) v.regions.items v.blocks.items) }
    ensures memory { IsOkUnless result OptError.Memory }
{
    ctx.well_formed();
    let mut regions = Vec::new(alloc);
    let mut blocks = Vec::new(alloc);
    let seen = IndexSet::new(alloc);
    let waiting = Vec::new(alloc);
    let mut worklist = RegionWorklist { seen, waiting };
    let mut postponed = Vec::new(alloc);
    push_new(starts, &mut worklist)?;
    while let Some(region) = worklist.waiting.pop() {
        let entered = entered_blocks(alloc, ctx, region)?;
        let listed = region.has_ssa_dominance(ctx);
        enter(alloc, ctx, &entered, listed, &mut worklist, &mut postponed)?;
        if listed {
            regions.push(region)?;
        }
        list_postponed(&mut postponed, worklist.waiting.len(), &mut blocks)?;
    }
    list_postponed(&mut postponed, 0, &mut blocks)?;
    blocks.reverse();
    Ok(Visits { regions, blocks })
}

/// What a call on the operation visits.
///
/// Asks that the operation is live and that edges are last in its blocks. Errors: allocation failure. Cost:
/// linear in the blocks, edges and operations that it visits, with one table look-up for each edge and each
/// visited region.
pub fn visits_inside_op(
    alloc: Global,
    ctx: &Context,
    op: Ptr<Operation>,
) -> Result<Visits, OptError>
    requires live { IsLive ctx.now.tree op }
    requires edges { EdgesLast ctx.now.tree op }
    ensures visits { IfOk result (λ v. AreVisits ctx.now.tree (OfOperation op ctx.now.tree) v.regions.items
        v.blocks.items) }
    ensures memory { IsOkUnless result OptError.Memory }
{
    ctx.well_formed();
    let mut starts = Vec::new(alloc);
    push_regions(ctx, op, &mut starts)?;
    visit(alloc, ctx, &starts)
}

/// What a call on the block visits: the regions of its operations, and so on down.
///
/// Asks that the block is live and that edges are last in the blocks of its parent operation. Errors: as
/// [`visits_inside_op`].
/// Cost: as [`visits_inside_op`].
pub fn visits_inside_block(
    alloc: Global,
    ctx: &Context,
    block: Ptr<BasicBlock>,
) -> Result<Visits, OptError>
    requires block { IsBlock ctx.now.tree block }
    requires edges { (holder : ℕ) → block_parent_operation_of ctx.now.tree block ≡ Some holder → EdgesLast ctx.now.tree
        holder }
    ensures visits { IfOk result (λ v. AreVisits ctx.now.tree (OfBlock block ctx.now.tree) v.regions.items
        v.blocks.items) }
    ensures memory { IsOkUnless result OptError.Memory }
{
    ctx.well_formed();
    let mut starts = Vec::new(alloc);
    push_nested(alloc, ctx, block, &mut starts)?;
    visit(alloc, ctx, &starts)
}

/// What a call on the region visits: the region itself, and so on down.
///
/// Asks that the region is live and that edges are last in the blocks of its parent operation. Errors: as
/// [`visits_inside_op`].
/// Cost: as [`visits_inside_op`].
pub fn visits_inside_region(
    alloc: Global,
    ctx: &Context,
    region: Ptr<Region>,
) -> Result<Visits, OptError>
    requires region { IsRegion ctx.now.tree region }
    requires edges { (holder : ℕ) → region_parent_of ctx.now.tree region ≡ Some holder → EdgesLast ctx.now.tree holder }
    ensures visits { IfOk result (λ v. AreVisits ctx.now.tree (OfRegion region ctx.now.tree) v.regions.items
        v.blocks.items) }
    ensures memory { IsOkUnless result OptError.Memory }
{
    ctx.well_formed();
    let mut starts = Vec::new(alloc);
    starts.push(region)?;
    visit(alloc, ctx, &starts)
}
