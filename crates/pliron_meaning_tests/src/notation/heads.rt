//! The operations that a text makes: by their heads, and by how much they have of what.
use crate::questions::{Question, check_table, operation_in};
use pliron_core::{AttrObj, BasicBlock, Context, Operation, Ptr};
use pliron_test_cases::cases::fields;
use std::alloc::Global;
use std::process::Abort;

/// The place of an operation and its text, and its kind, whether it has dominance, its only attribute if
/// it has one, and how many operands, results, successors and regions it has. A `mod` alone has no
/// dominance.
static HEADS: &str = "\
a module in a module -- 0 / mod { b0(): mod { } } => 0 false None [0, 0, 0, 1]
a function -- 0 / mod { b0(): func { b0(): } } => 1 true None [0, 0, 0, 1]
a constant -- 0 / func { b0(): a = const -7 } => 2 true Some(-7) [0, 1, 0, 0]
a sum -- 0 / func { b0(a): b = add a a } => 3 true None [2, 1, 0, 0]
a product -- 0 / func { b0(a): b = mul a a } => 4 true None [2, 1, 0, 0]
a quotient -- 0 / func { b0(a): b = div a a } => 5 true None [2, 1, 0, 0]
a read -- 0 / func { b0(): a = read } => 6 true None [0, 1, 0, 0]
a print -- 0 / func { b0(a): print a } => 7 true None [1, 0, 0, 0]
a pair -- 0 / func { b0(): a, b = pair } => 8 true None [0, 2, 0, 0]
a sink -- 0 / func { b0(a): sink a a a } => 9 true None [3, 0, 0, 0]
a scope -- 0 / func { b0(a): scope a a { b0(): } } => 10 true None [2, 0, 0, 1]
a box -- 0 / func { b0(): box { } } => 11 true None [0, 0, 0, 1]
a jump -- 0 / func { b0(a): br b0(a) } => 12 true None [1, 0, 1, 0]
a branch -- 0 / func { b0(a): cbr a b0(a) b0(a, a) } => 13 true Some(1) [4, 0, 2, 0]
a branch that forwards nothing along its first edge -- 0 / func { b0(a): cbr a b0() b0(a) } => 13 true Some(0) [2, \
    0, 2, 0]
a branch that forwards nothing along its second edge -- 0 / func { b0(a): cbr a b0(a, a) b0() } => 13 true Some(2) \
    [3, 0, 2, 0]
a return -- 0 / func { b0(a): ret a a } => 14 true None [2, 0, 0, 0]
a fork -- 0 / func { b0(a): fork a b0 b0 } => 15 true None [1, 0, 2, 0]
a module as the root -- root / mod { } => 0 false None [0, 0, 0, 1]
a function as the root -- root / func { b0(): } => 1 true None [0, 0, 0, 1]";

// The only attribute of the operation, if it has one.
fn number_of(rt: &impl Abort, ctx: &Context, op: Ptr<Operation>) -> Option<i128> {
    assert!(rt; op.is_live(ctx));
    let attrs = &op.head(ctx).attrs;
    if attrs.is_empty() {
        return None;
    }
    assert!(rt; attrs.len() == 1);
    match attrs.get(0) {
        AttrObj::Int(number) => Some(*number),
        AttrObj::Text(_) => panic!(rt; "a text"),
    }
}

/// What is said of the operation of the text at the place before it.
pub fn head(rt: &impl Abort, alloc: Global, ctx: &mut Context, case: &str) -> String {
    let (place, text) = fields(case).expect(rt, "two fields");
    let op = operation_in(rt, alloc, ctx, text, place);
    assert!(rt; op.is_live(ctx));
    let counts = [
        op.num_operand(ctx),
        op.num_result(ctx),
        op.num_successor(ctx),
        op.num_region(ctx),
    ];
    let number = number_of(rt, ctx, op);
    let head = op.head(ctx);
    format!(in alloc; "{} {} {number:?} {counts:?}", head.kind, head.ssa).expect(rt, "memory")
}

// Whether the operands are the block's arguments in order.
fn are_arguments(
    rt: &impl Abort,
    ctx: &Context,
    op: Ptr<Operation>,
    block: Ptr<BasicBlock>,
) -> bool {
    assert!(rt; op.is_live(ctx));
    assert!(rt; block.is_live(ctx));
    if op.num_operand(ctx) != block.num_argument(ctx) {
        return false;
    }
    for i in 0..op.num_operand(ctx) {
        if op.get_operand(ctx, i) != block.get_argument(ctx, i) {
            return false;
        }
    }
    true
}

// Whether the two successors are the two blocks after this one.
fn are_next(rt: &impl Abort, ctx: &Context, op: Ptr<Operation>, block: Ptr<BasicBlock>) -> bool {
    assert!(rt; op.is_live(ctx));
    assert!(rt; op.num_successor(ctx) == 2);
    let (first, second) = (op.get_successor(ctx, 0), op.get_successor(ctx, 1));
    assert!(rt; block.is_live(ctx));
    assert!(rt; first.is_live(ctx));
    block.get_next(ctx) == Some(first) && first.get_next(ctx) == Some(second)
}

// The operands are the block's arguments in order, and the successors are the two blocks after it.
fn check_branch(rt: &impl Abort, ctx: &Context, op: Ptr<Operation>, name: &str) {
    assert!(rt; op.is_live(ctx));
    let block = op.get_parent_block(ctx).expect(rt, "a block");
    assert!(rt; are_arguments(rt, ctx, op, block), "{name}");
    assert!(rt; are_next(rt, ctx, op, block), "{name}");
}

/// The condition comes first, then what the first edge forwards, then the second.
static BRANCHES: &str = "\
a branch -- func { b0(c, x, y, z): cbr c b1(x, y) b2(z); b1(p, q):; b2(r): }
a fork -- func { b0(c): fork c b1 b2; b1():; b2(): }";

fn order_in(rt: &impl Abort, alloc: Global, ctx: &mut Context) {
    for case in BRANCHES.lines() {
        let (name, text) = case.split_once(" -- ").expect(rt, "a name");
        let op = operation_in(rt, alloc, ctx, text, "0");
        check_branch(rt, ctx, op, name);
    }
}

#[test]
fn operands_and_successors(rt: HostRuntime) {
    let alloc = rt.alloc();
    let mut ctx = Context::new(alloc);
    order_in(&rt, alloc, &mut ctx)
}

#[test]
fn heads_and_counts(rt: HostRuntime) {
    check_table(&rt, rt.alloc(), Question::Heads, HEADS);
}
