//! Calls on a tree, with what they ask asserted first.

ghost use Rattle.std.specs.Prelude.{◌<◌, length};
ghost use Rattle.pliron_core.specs.Tree.{IsRegion};

use pliron_core::{
    AttrObj, Attrs, BasicBlock, Context, Head, IRRewriter, Operation, Ptr, Region, Rewriter, Value,
};
use std::alloc::Global;
use std::process::Abort;

pub const FUNC: u32 = 1;

pub const CONST: u32 = 2;

// The body is lent a new context, which ends here.
pub fn in_new_context<R, F>(rt: &R, alloc: Global, body: F)
where
    R: Abort,
    F: FnOnce(&R, Global, &mut Context),
    requires { F.IsAlwaysCallable body }
{
    let mut ctx = Context::new(alloc);
    body(rt, alloc, &mut ctx)
}

// A new operation with these attributes.
fn create(
    rt: &impl Abort,
    ctx: &mut Context,
    kind: u32,
    attrs: Vec<AttrObj>,
    results: usize,
    regions: usize,
) -> Ptr<Operation> {
    let head = Head {
        kind,
        ssa: true,
        attrs: Attrs::new(attrs),
    };
    let op = Operation::create(ctx, head, results, regions).expect(rt, "memory");
    check_new_operation(rt, ctx, op, results, regions);
    op
}

// A new operation without attributes, which is live.
pub fn operation(
    rt: &impl Abort,
    alloc: Global,
    ctx: &mut Context,
    kind: u32,
    results: usize,
    regions: usize,
) -> Ptr<Operation> {
    create(rt, ctx, kind, Vec::new(alloc), results, regions)
}

// A new operation with one result and this number as its attribute.
pub fn constant(rt: &impl Abort, alloc: Global, ctx: &mut Context, number: i128) -> Ptr<Operation> {
    let attrs = Vec::from_array(alloc, [AttrObj::Int(number)]).expect(rt, "memory");
    create(rt, ctx, CONST, attrs, 1, 0)
}

fn check_new_operation(
    rt: &impl Abort,
    ctx: &Context,
    op: Ptr<Operation>,
    results: usize,
    regions: usize,
) {
    assert!(rt; op.is_live(ctx));
    assert_eq!(rt; op.num_result(ctx), results);
    assert_eq!(rt; op.num_region(ctx), regions);
    assert!(rt; op.get_parent_block(ctx).is_none());
}

// A new last block of the region of this index.
pub fn block(
    rt: &impl Abort,
    ctx: &mut Context,
    op: Ptr<Operation>,
    region: usize,
    arguments: usize,
) -> Ptr<BasicBlock> {
    let region = region_of(rt, ctx, op, region);
    let block = BasicBlock::create(ctx, region, arguments).expect(rt, "memory");
    assert!(rt; block.is_live(ctx));
    assert_eq!(rt; block.num_argument(ctx), arguments);
    block
}

pub fn region_of(rt: &impl Abort, ctx: &Context, op: Ptr<Operation>, i: usize) -> Ptr<Region>
    ensures { IsRegion ctx.now.tree result }
{
    assert!(rt; op.is_live(ctx));
    assert!(rt; i < op.num_region(ctx));
    let region = op.get_region(ctx, i);
    assert!(rt; region.is_live(ctx));
    assert_eq!(rt; region.get_parent_op(ctx), op);
    region
}

pub fn result_of(rt: &impl Abort, ctx: &Context, op: Ptr<Operation>, i: usize) -> Value {
    assert!(rt; op.is_live(ctx));
    assert!(rt; i < op.num_result(ctx));
    op.get_result(ctx, i)
}

pub fn operand_of(rt: &impl Abort, ctx: &Context, op: Ptr<Operation>, i: usize) -> Value {
    assert!(rt; op.is_live(ctx));
    assert!(rt; i < op.num_operand(ctx));
    op.get_operand(ctx, i)
}

// The operation is moved to the end of the block.
pub fn append(rt: &impl Abort, ctx: &mut Context, block: Ptr<BasicBlock>, op: Ptr<Operation>) {
    assert!(rt; block.is_live(ctx));
    assert!(rt; op.is_live(ctx));
    assert!(rt; op.get_parent_block(ctx).is_none());
    assert!(rt; !op.holds_block(block, ctx));
    BasicBlock::push_operation(ctx, block, op).expect(rt, "memory");
}

// A new last operation of the block.
pub fn append_operation(
    rt: &impl Abort,
    alloc: Global,
    ctx: &mut Context,
    block: Ptr<BasicBlock>,
    kind: u32,
    results: usize,
) -> Ptr<Operation> {
    let op = operation(rt, alloc, ctx, kind, results, 0);
    append(rt, ctx, block, op);
    op
}

// A new constant, last in the block.
pub fn append_constant(
    rt: &impl Abort,
    alloc: Global,
    ctx: &mut Context,
    block: Ptr<BasicBlock>,
    number: i128,
) -> Ptr<Operation> {
    let op = constant(rt, alloc, ctx, number);
    append(rt, ctx, block, op);
    op
}

pub fn add_operand(rt: &impl Abort, ctx: &mut Context, op: Ptr<Operation>, value: Value) {
    assert!(rt; op.is_live(ctx));
    assert!(rt; value.is_live(ctx));
    Operation::push_operand(ctx, op, value).expect(rt, "memory");
}

pub fn add_successor(
    rt: &impl Abort,
    ctx: &mut Context,
    op: Ptr<Operation>,
    block: Ptr<BasicBlock>,
) {
    assert!(rt; op.is_live(ctx));
    assert!(rt; block.is_live(ctx));
    Operation::push_successor(ctx, op, block).expect(rt, "memory");
}

// The operation becomes the last of the block.
pub fn move_to_end(rt: &impl Abort, ctx: &mut Context, op: Ptr<Operation>, block: Ptr<BasicBlock>) {
    assert!(rt; op.is_live(ctx));
    assert!(rt; block.is_live(ctx));
    assert!(rt; !op.holds_block(block, ctx));
    IRRewriter::new().move_operation_to_end(ctx, op, block);
}

pub fn erase(rt: &impl Abort, ctx: &mut Context, op: Ptr<Operation>) {
    assert!(rt; op.is_live(ctx));
    assert!(rt; op.is_self_contained(ctx));
    IRRewriter::new().erase_operation(ctx, op);
    assert!(rt; !op.is_live(ctx));
}

// How often the value is used, and that each of its uses names it.
pub fn count_uses(rt: &impl Abort, ctx: &Context, value: Value) -> usize {
    assert!(rt; value.is_live(ctx));
    let count = value.num_use(ctx);
    for i in 0..count {
        let (user, index) = value.get_use(ctx, i);
        assert_eq!(rt; operand_of(rt, ctx, user, index), value);
    }
    count
}

// The block has these operations in this order, by every link.
pub fn check_links(
    rt: &impl Abort,
    ctx: &Context,
    block: Ptr<BasicBlock>,
    want: &[Ptr<Operation>],
) {
    assert!(rt; block.is_live(ctx));
    assert!(rt; block.get_head(ctx) == want.first().copied());
    assert!(rt; block.get_tail(ctx) == want.last().copied());
    for i in 0..want.len() {
        check_place(rt, ctx, block, want, i);
    }
}

// The operation with this index is in the block, between its neighbours.
fn check_place(
    rt: &impl Abort,
    ctx: &Context,
    block: Ptr<BasicBlock>,
    want: &[Ptr<Operation>],
    i: usize,
)
    requires { i < length want.now }
{
    let op = want[i];
    assert!(rt; op.is_live(ctx));
    assert!(rt; op.get_parent_block(ctx) == Some(block));
    assert!(rt; op.get_prev(ctx) == want.get(i.wrapping_sub(1)).copied());
    assert!(rt; op.get_next(ctx) == want.get(i.wrapping_add(1)).copied());
}
