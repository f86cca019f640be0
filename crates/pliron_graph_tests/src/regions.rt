//! Regions of blocks as graphs, and their reverse.
ghost use Rattle.pliron_core.specs.Tree.{IsRegion};
ghost use Rattle.pliron_graph_traversal.specs.Regions.{IsLawfulRegion};

use crate::cases::{case_of, check_answer, question_of, rows_of};
use crate::texts::answer;
use pliron_core::{Attrs, BasicBlock, Context, Head, Operation, Ptr, Region};
use pliron_laws::edges_last;
use std::alloc::Global;
use std::process::Abort;

static REGIONS: &str = "\
orders, a diamond -- orders: 1 2;3;3;; => [block3 block1 block2 block0] / [block0 block2 block1 block3] / block3 \
    block1 block2 block0 / block0 block2 block1 block3
orders, a ring and a node -- orders: 1;2;0;; => [block2 block1 block0][block3] / [block0 block1 block2][block3] / \
    block2 block1 block0 block3 / block0 block1 block2 block3
orders, a ring that leads to the first node -- orders: ;0 2;1; => [block0][block2 block1] / [block0][block1 \
    block2] / block0 block2 block1 / block0 block1 block2
searches, a ring of two and an unreached node -- searches: 1 2;2;1;0; => block0 block1 block2 / block2 block1 \
    block0 / block0 block1 block2 / block0=0/2/0 block1=1/1/1 block2=2/0/2 block3=-
searches, a diamond in a loop -- searches: 1 2;3;3;0 3; => block0 block1 block3 block2 / block3 block1 block2 \
    block0 / block0 block2 block1 block3 / block0=0/3/0 block1=1/1/2 block2=3/2/1 block3=2/0/3
edges, a diamond in a loop -- edges: 1 2;3;3;0 3; => block0>block1:Forward block0>block2:Forward \
    block1>block3:Forward block2>block3:Cross block3>block0:Back block3>block3:Back
components, a loop and an unreached node -- components: 1 2;3;4;;2;3; => [block5] [block0] [block4 block2]* \
    [block1] [block3]
neighbours, parallel edges to a loop -- neighbours: 1 1;1;1 1; => >block0>block1 block1, block0 block1 \
    block2>block1>block1, >block2>block1 block1
indices, parallel edges to a loop -- indices: 1 1;1;1 1; => >block0>block1 block1, block0 block1 \
    block2>block1>block1, >block2>block1 block1
entry, parallel edges to a loop -- entry: 1 1;1;1 1; => block0
entry, no nodes -- entry:  => none";

static REVERSED: &str = "\
reverse pre-sentinels, a loop and an unreached node -- reverse pre-sentinels: 1 2;3;4;;2;3; => block4 block3
reverse neighbours, a loop and an unreached node -- reverse neighbours: 1 2;3;4;;2;3; => >sentinel>block4 block3, \
    block1 block2>block0>, block3>block1>block0, block4>block2>block0 block4, sentinel>block3>block1 block5, \
    block2 sentinel>block4>block2, block3>block5>
reverse searches, a loop and an unreached node -- reverse searches: 1 2;3;4;;2;3; => sentinel block4 block2 block0 \
    block3 block1 block5 / block0 block2 block4 block1 block5 block3 sentinel / sentinel block3 block5 block1 \
    block4 block2 block0 / sentinel=0/6/0 block0=3/0/6 block1=5/3/3 block2=2/1/5 block3=4/5/1 block4=1/2/4 \
    block5=6/4/2
reverse orders, a loop and an unreached node -- reverse orders: 1 2;3;4;;2;3; => [block0 block2 block4 block1 \
    block5 block3 sentinel] / [sentinel block3 block5 block1 block4 block2 block0] / block0 block2 block4 block1 \
    block5 block3 sentinel / sentinel block3 block5 block1 block4 block2 block0
reverse components, a loop and an unreached node -- reverse components: 1 2;3;4;;2;3; => [sentinel] [block3] \
    [block5] [block1] [block2 block4]* [block0]
reverse indices, a loop and an unreached node -- reverse indices: 1 2;3;4;;2;3; => >sentinel>block4 block3, block1 \
    block2>block0>, block3>block1>block0, block4>block2>block0 block4, sentinel>block3>block1 block5, block2 \
    sentinel>block4>block2, block3>block5>";

// A new operation in no block, with this many regions.
fn operation(rt: &impl Abort, alloc: Global, ctx: &mut Context, regions: usize) -> Ptr<Operation> {
    let head = Head {
        kind: 1,
        ssa: true,
        attrs: Attrs::new(Vec::new(alloc)),
    };
    Operation::create(ctx, head, 0, regions).expect(rt, "memory")
}

// The first region of the operation.
fn region_of(rt: &impl Abort, ctx: &Context, op: Ptr<Operation>) -> Ptr<Region>
    ensures { IsRegion ctx.now.tree result }
{
    assert!(rt; op.is_live(ctx));
    assert!(rt; 0 < op.num_region(ctx));
    op.get_region(ctx, 0)
}

// A new last operation of the block.
fn append_operation(
    rt: &impl Abort,
    alloc: Global,
    ctx: &mut Context,
    block: Ptr<BasicBlock>,
) -> Ptr<Operation> {
    let op = operation(rt, alloc, ctx, 0);
    assert!(rt; block.is_live(ctx));
    assert!(rt; op.is_live(ctx));
    assert!(rt; op.get_parent_block(ctx).is_none());
    assert!(rt; !op.holds_block(block, ctx));
    BasicBlock::push_operation(ctx, block, op).expect(rt, "memory");
    op
}

// The operation gets the block with this number as its last successor.
fn lead(
    rt: &impl Abort,
    ctx: &mut Context,
    op: Ptr<Operation>,
    blocks: &[Ptr<BasicBlock>],
    target: u32,
) {
    let block = *blocks.get(target as usize).expect(rt, "a block");
    assert!(rt; op.is_live(ctx));
    assert!(rt; block.is_live(ctx));
    Operation::push_successor(ctx, op, block).expect(rt, "memory");
}

// The block ends with an operation that has these blocks as successors.
fn branch(
    rt: &impl Abort,
    alloc: Global,
    ctx: &mut Context,
    from: Ptr<BasicBlock>,
    blocks: &[Ptr<BasicBlock>],
    targets: &[u32],
) {
    let op = append_operation(rt, alloc, ctx, from);
    for target in targets {
        lead(rt, ctx, op, blocks, *target);
    }
}

// A new last block of the region.
fn block(rt: &impl Abort, ctx: &mut Context, region: Ptr<Region>) -> Ptr<BasicBlock> {
    assert!(rt; region.is_live(ctx));
    BasicBlock::create(ctx, region, 0).expect(rt, "memory")
}

// Gives the region a block for each row, which leads to those of its row. The last block gets its edges first,
// so that the uses of a block are not in the region's order.
fn fill(rt: &impl Abort, alloc: Global, ctx: &mut Context, region: Ptr<Region>, rows: &[Vec<u32>]) {
    let mut blocks = Vec::new(alloc);
    for _ in rows {
        blocks.push(block(rt, ctx, region)).expect(rt, "memory");
    }
    for (from, row) in blocks.iter().zip(rows).rev() {
        branch(rt, alloc, ctx, *from, &blocks, row);
    }
}

// A region with these rows, which may be read as a graph: what a caller tests for that.
fn region_with(rt: &impl Abort, alloc: Global, ctx: &mut Context, rows: &str) -> Ptr<Region>
    ensures { IsLawfulRegion ctx.new.tree result }
{
    let func = operation(rt, alloc, ctx, 1);
    let region = region_of(rt, ctx, func);
    fill(rt, alloc, ctx, region, &rows_of(rt, alloc, rows));
    check_lawful(rt, ctx, region);
    region
}

fn check_lawful(rt: &impl Abort, ctx: &Context, region: Ptr<Region>)
    ensures { IsLawfulRegion ctx.now.tree region }
{
    ctx.well_formed();
    assert!(rt; region.is_live(ctx));
    assert!(rt; edges_last(region.get_parent_op(ctx), ctx));
}

fn check_in(rt: &impl Abort, alloc: Global, ctx: &mut Context, line: &str) {
    let case = case_of(rt, line);
    let (what, rows) = question_of(rt, &case);
    let region = region_with(rt, alloc, ctx, rows);
    check_answer(rt, &case, &answer(rt, alloc, ctx, &region, what));
}

// Each case has a context of its own, since the labels of blocks are numbers of the context.
fn check_case(rt: &impl Abort, alloc: Global, line: &str) {
    let mut ctx = Context::new(alloc);
    check_in(rt, alloc, &mut ctx, line)
}

#[test]
fn worked_regions(rt: HostRuntime) {
    for table in [REGIONS, REVERSED] {
        for line in table.lines() {
            check_case(&rt, rt.alloc(), line);
        }
    }
}
