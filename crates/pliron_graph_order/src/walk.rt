//! Giving numbers to all operations that are seen.
ghost use Rattle.std.specs.Prelude.{◌≡◌, ◌≢◌, ◌<◌, ℕ, Some, IfOk, OnOk, IsOkUnless, IsTrue, length, get_or};
ghost use Rattle.pliron_core.specs.Reads.{has_ssa};
ghost use Rattle.pliron_core.specs.Tree.{In, IsLive, regions_of, body_of};
ghost use Rattle.pliron_laws.specs.Linked.{EdgesLast};
ghost use Rattle.pliron_graph_traversal.specs.Regions.{graph_of_region};
ghost use Rattle.pliron_graph_dominance.specs.ParentTables.{parent_by};
ghost use Rattle.pliron_graph_dominance.specs.NumberTests.{GivesDominance};
ghost use Rattle.pliron_graph_order.specs.Numbering.{tables_of, key_eq, AreTaken, NumbersGrow, IsDone, IsEntered, IsLeftAt, IsNumbering, IsWaiting};
ghost use Rattle.pliron_graph_order.specs.Seen.{IsSeen};

use crate::numbering::Numbering;
use pliron_core::{BasicBlock, Context, Operation, Ptr, Region};
use pliron_graph_dominance::DominatorTree;
use pliron_laws::OptError;
use pliron_laws::reads::all_operations;
use std::alloc::Global;

// The regions of the operation are visited, below this number.
fn add_regions(
    numbering: &mut Numbering,
    op: Ptr<Operation>,
    above: usize,
    ctx: &Context,
) -> Result<(), OptError>
    requires live { IsLive ctx.now.tree op }
    requires numbered { IsNumbering ctx.now.tree (tables_of numbering.old) }
    requires waits { (q : ℕ) → In q (regions_of ctx.now.tree op) → IsWaiting ctx.now.tree (tables_of numbering.old) q
        above }
    ensures numbered { OnOk result (IsNumbering ctx.now.tree (tables_of numbering.new)) }
    ensures grows { OnOk result (NumbersGrow (tables_of numbering.old) (tables_of numbering.new)) }
    ensures all { OnOk result ((q : ℕ) → In q (regions_of ctx.now.tree op) → In q (tables_of numbering.new).regions) }
    ensures memory { IsOkUnless result OptError.Memory }
{
    for i in 0..op.num_region(ctx) {
        numbering.add_region(op.get_region(ctx, i), above)?;
    }
    Ok(())
}

// The operations of a block that is reached get numbers. Answers that of the last one, or of the nearest one before.
fn add_block(
    alloc: Global,
    numbering: &mut Numbering,
    block: Ptr<BasicBlock>,
    above: usize,
    ctx: &Context,
) -> Result<usize, OptError>
    requires numbered { IsNumbering ctx.now.tree (tables_of numbering.old) }
    requires entered { (r : ℕ) × IsEntered ctx.now.tree (tables_of numbering.old) r block above }
    ensures numbered { OnOk result (IsNumbering ctx.now.tree (tables_of numbering.new)) }
    ensures grows { OnOk result (NumbersGrow (tables_of numbering.old) (tables_of numbering.new)) }
    ensures left { IfOk result (λ end. IsLeftAt ctx.now.tree (tables_of numbering.new) block
        (body_of ctx.now.tree block)
        end) }
    ensures taken { OnOk result (AreTaken ctx.now.tree (tables_of numbering.new) (body_of ctx.now.tree block)) }
    ensures memory { IsOkUnless result OptError.Memory }
{
    ctx.well_formed();
    let mut now = above;
    let ops = all_operations(alloc, block, ctx)?;
    for op in &ops {
        add_regions(numbering, *op, now, ctx)?;
        now = numbering.add_operation(*op, now)?;
    }
    Ok(now)
}

// The number before the start of a block: that of the end of its immediate dominator, or for the entry this one.
fn number_before(
    tree: &DominatorTree<Ptr<BasicBlock>>,
    ends: &[usize],
    number: usize,
    above: usize,
) -> usize
    requires number { number < length tree.now.parents }
    requires low { number ≢ 0 → parent_by tree.now.parents number < length ends.now }
    ensures top { number ≡ 0 → result ≡ above }
    ensures up { number ≢ 0 → result ≡ get_or ends.now (parent_by tree.now.parents number) 0 }
{
    match tree.number_above(number) {
        Some(up) => ends[up],
        None => above,
    }
}

// The operations of all blocks of a region that are in its dominator tree get numbers, each block behind its immediate
// dominator.
fn add_blocks(
    alloc: Global,
    numbering: &mut Numbering,
    tree: &DominatorTree<Ptr<BasicBlock>>,
    above: usize,
    ctx: &Context,
) -> Result<(), OptError>
    requires numbered { IsNumbering ctx.now.tree (tables_of numbering.old) }
    requires is_waiting { (r : ℕ) × IsWaiting ctx.now.tree (tables_of numbering.old) r above × IsTrue
        (has_ssa ctx.now.tree r) × GivesDominance key_eq (graph_of_region ctx.now.tree r) tree.now }
    ensures numbered { OnOk result (IsNumbering ctx.now.tree (tables_of numbering.new)) }
    ensures grows { OnOk result (NumbersGrow (tables_of numbering.old) (tables_of numbering.new)) }
    ensures taken { OnOk result ((k : ℕ) → k < length tree.now.nodes → AreTaken ctx.now.tree (tables_of numbering.new)
        (body_of ctx.now.tree (get_or tree.now.nodes k 0))) }
    ensures memory { IsOkUnless result OptError.Memory }
{
    ctx.well_formed();
    tree.well_formed();
    let mut ends: Vec<usize> = Vec::new(alloc);
    for number in 0..tree.count() {
        let from = number_before(tree, &ends, number, above);
        let end = add_block(alloc, numbering, tree.node_at(number), from, ctx)?;
        ends.push(end)?;
    }
    Ok(())
}

// The operations of all blocks that the entry of the region reaches get numbers.
fn add_reached(
    alloc: Global,
    numbering: &mut Numbering,
    region: Ptr<Region>,
    above: usize,
    ctx: &Context,
) -> Result<(), OptError>
    requires numbered { IsNumbering ctx.now.tree (tables_of numbering.old) }
    requires waiting { IsWaiting ctx.now.tree (tables_of numbering.old) region above }
    requires dominance { IsTrue (has_ssa ctx.now.tree region) }
    ensures numbered { OnOk result (IsNumbering ctx.now.tree (tables_of numbering.new)) }
    ensures grows { OnOk result (NumbersGrow (tables_of numbering.old) (tables_of numbering.new)) }
    ensures done { OnOk result (IsDone ctx.now.tree (tables_of numbering.new) region) }
    ensures memory { IsOkUnless result OptError.Memory }
{
    ctx.well_formed();
    let tree = DominatorTree::new(alloc, ctx, &region)?;
    tree.well_formed();
    add_blocks(alloc, numbering, &tree, above, ctx)?;
    Ok(())
}

// The regions of the operations of the head block are visited.
fn add_head(
    alloc: Global,
    numbering: &mut Numbering,
    region: Ptr<Region>,
    above: usize,
    ctx: &Context,
) -> Result<(), OptError>
    requires numbered { IsNumbering ctx.now.tree (tables_of numbering.old) }
    requires waiting { IsWaiting ctx.now.tree (tables_of numbering.old) region above }
    requires other { IsTrue (has_ssa ctx.now.tree region) → ⊥ }
    ensures numbered { OnOk result (IsNumbering ctx.now.tree (tables_of numbering.new)) }
    ensures grows { OnOk result (NumbersGrow (tables_of numbering.old) (tables_of numbering.new)) }
    ensures done { OnOk result (IsDone ctx.now.tree (tables_of numbering.new) region) }
    ensures memory { IsOkUnless result OptError.Memory }
{
    ctx.well_formed();
    let Some(head) = region.get_head(ctx) else {
        return Ok(());
    };
    let ops = all_operations(alloc, head, ctx)?;
    for op in &ops {
        add_regions(numbering, *op, above, ctx)?;
    }
    Ok(())
}

// What is visited in the region.
fn add_contents(
    alloc: Global,
    numbering: &mut Numbering,
    region: Ptr<Region>,
    above: usize,
    ctx: &Context,
) -> Result<(), OptError>
    requires numbered { IsNumbering ctx.now.tree (tables_of numbering.old) }
    requires waiting { IsWaiting ctx.now.tree (tables_of numbering.old) region above }
    ensures numbered { OnOk result (IsNumbering ctx.now.tree (tables_of numbering.new)) }
    ensures grows { OnOk result (NumbersGrow (tables_of numbering.old) (tables_of numbering.new)) }
    ensures done { OnOk result (IsDone ctx.now.tree (tables_of numbering.new) region) }
    ensures memory { IsOkUnless result OptError.Memory }
{
    ctx.well_formed();
    if region.has_ssa_dominance(ctx) {
        return add_reached(alloc, numbering, region, above, ctx);
    }
    add_head(alloc, numbering, region, above, ctx)
}

// The region at this place, and its number.
fn waiting_at(numbering: &Numbering, place: usize) -> (Ptr<Region>, usize)
    requires place { place < length (tables_of numbering.now).regions }
    requires listed { length (tables_of numbering.now).above ≡ length (tables_of numbering.now).regions }
    ensures region { result.0 ≡ get_or (tables_of numbering.now).regions place 0 }
    ensures above { result.1 ≡ get_or (tables_of numbering.now).above place 0 }
{
    (numbering.regions.as_slice()[place], numbering.above[place])
}

// What is visited in each of the regions, and in those that come behind them.
fn add_all(alloc: Global, numbering: &mut Numbering, ctx: &Context) -> Result<(), OptError>
    requires { IsNumbering ctx.now.tree (tables_of numbering.old) }
    ensures numbered { OnOk result (IsNumbering ctx.now.tree (tables_of numbering.new)) }
    ensures grows { OnOk result (NumbersGrow (tables_of numbering.old) (tables_of numbering.new)) }
    ensures done { OnOk result ((r : ℕ) → In r (tables_of numbering.new).regions → IsDone ctx.now.tree
        (tables_of numbering.new) r) }
    ensures memory { IsOkUnless result OptError.Memory }
{
    for i in 0..usize::MAX {
        if numbering.regions.len() <= i {
            return Ok(());
        }
        let (region, above) = waiting_at(numbering, i);
        add_contents(alloc, numbering, region, above, ctx)?;
    }
    Ok(())
}

/// All operations that are seen inside the root, by number. Asks that the root is live and that edges are last
/// in it. Errors: allocation failure. Cost: linear in the operations inside, and that of a dominator tree for
/// each region.
pub fn number_all(alloc: Global, root: Ptr<Operation>, ctx: &Context) -> Result<Numbering, OptError>
    requires live { IsLive ctx.now.tree root }
    requires edges { EdgesLast ctx.now.tree root }
    ensures numbered { IfOk result (λ n. IsNumbering ctx.now.tree (tables_of n)) }
    ensures root { IfOk result (λ n. n.root ≡ root) }
    ensures all { IfOk result (λ n. (k : ℕ) → IsSeen ctx.now.tree root k → In k (tables_of n).ops) }
    ensures memory { IsOkUnless result OptError.Memory }
{
    ctx.well_formed();
    let mut numbering = Numbering::start(alloc, root)?;
    add_regions(&mut numbering, root, 0, ctx)?;
    add_all(alloc, &mut numbering, ctx)?;
    Ok(numbering)
}
