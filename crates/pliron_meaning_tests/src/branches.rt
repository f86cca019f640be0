//! The edges of branches of the dialect `Bench`, and branches that fold: on texts of its notation, by
//! values worked out by hand.
use crate::questions::{Question, check_table, operation_in};
use pliron_core::{AttrObj, BasicBlock, Context, IRStatus, Operation, Ptr, Rewriter};
use pliron_test_cases::bench::Bench;
use pliron_test_cases::cases::{all_known, fields, line, number, operation_at, read};
use pliron_test_cases::listener::CountingListener;
use pliron_test_cases::losses::{lose, lose_along};
use pliron_test_cases::{BranchOpFoldInterface, Dialect};
use std::alloc::Global;
use std::process::Abort;

/// Texts, and the fault that verifying the first operation finds.
static VERIFIED: &str = "\
as many values as arguments -- func { b0(x): cbr x b1(x) b2(x, x); b1(a): ret; b2(b, c): ret } => None
too few on the first edge -- func { b0(x): cbr x b1() b2(x, x); b1(a): ret; b2(b, c): ret } => Some(Pass(1))
too few on the second edge -- func { b0(x): cbr x b1(x) b2(x); b1(a): ret; b2(b, c): ret } => Some(Pass(1))
a jump, which does not fold -- func { b0(x): br b1(x); b1(): ret } => None";

/// The fault that verifying the first operation of the text finds.
pub fn fault_of(rt: &impl Abort, alloc: Global, ctx: &mut Context, text: &str) -> String {
    let op = operation_in(rt, alloc, ctx, text, "0");
    assert!(rt; op.is_live(ctx));
    let fault = <Bench as BranchOpFoldInterface>::verify(alloc, op, ctx).err();
    format!(in alloc; "{fault:?}").expect(rt, "memory")
}

static BRANCH: &str =
    "func { b0(v0, v1, v2): cbr v0 b1(v1) b2(v2, v1); b1(v3): ret v3; b2(v4, v5): ret v5 }";

/// What is known of the operands, and the successors that the branch may go to.
static TARGETS: &str = "\
a number but 0 -- -1 ? ? ? => 0
0 -- 0 ? ? ? => 1
an unknown condition -- ? ? ? ? => 0 1";

/// What is known of the operands, and what folding the branch in place leaves.
static IN_PLACE: &str = "\
a number but 0 -- 5 ? ? ? => func { b0(v0, v1, v2): br b1(v1); b1(v3): ret v3; b2(v4, v5): ret v5 }
0 -- 0 ? ? ? => func { b0(v0, v1, v2): br b2(v2, v1); b1(v3): ret v3; b2(v4, v5): ret v5 }
a number that is 0 in 64 bits -- 18446744073709551616 ? ? ? => func { b0(v0, v1, v2): br b2(v2, v1); b1(v3): ret \
    v3; b2(v4, v5): ret v5 }
a text, which counts as 0 -- '7 ? ? ? => func { b0(v0, v1, v2): br b2(v2, v1); b1(v3): ret v3; b2(v4, v5): ret v5 }
an unknown condition -- ? ? ? ? => func { b0(v0, v1, v2): cbr v0 b1(v1) b2(v2, v1); b1(v3): ret v3; b2(v4, v5): \
    ret v5 }";

// The index of the block among the successors of the operation.
fn index_of(rt: &impl Abort, ctx: &Context, op: Ptr<Operation>, block: Ptr<BasicBlock>) -> usize {
    assert!(rt; op.is_live(ctx));
    for index in 0..op.num_successor(ctx) {
        if op.get_successor(ctx, index) == block {
            return index;
        }
    }
    panic!(rt; "no successor");
}

// The indices of the blocks among the successors of the operation, a blank before each but the first.
fn indices_of(
    rt: &impl Abort,
    alloc: Global,
    ctx: &Context,
    op: Ptr<Operation>,
    blocks: &[Ptr<BasicBlock>],
) -> String {
    let mut text = String::new(alloc);
    for block in blocks {
        let index = index_of(rt, ctx, op, *block);
        let between = if text.is_empty() { "" } else { " " };
        text.push_str(between).expect(rt, "memory");
        write!(text, "{index}").expect(rt, "memory");
    }
    text
}

/// The successors that the branch may go to, where so much is known of its operands.
pub fn targets_of(rt: &impl Abort, alloc: Global, ctx: &mut Context, words: &str) -> String {
    let op = operation_in(rt, alloc, ctx, BRANCH, "0");
    let operands = all_known(alloc, words).expect(rt, "memory");
    assert!(rt; op.is_live(ctx));
    assert!(rt; Bench::folds_branch(op, ctx));
    assert!(rt; op.num_operand(ctx) == operands.len());
    let blocks = <Bench as BranchOpFoldInterface>::check_fold(alloc, op, ctx, &operands).expect(
        rt, "memory",
    );
    indices_of(rt, alloc, ctx, op, &blocks)
}

// Folds the branch in place.
fn fold_in_place(
    rt: &impl Abort,
    alloc: Global,
    ctx: &mut Context,
    op: Ptr<Operation>,
    operands: &[Option<AttrObj>],
) -> IRStatus {
    assert!(rt; op.is_live(ctx));
    assert!(rt; Bench::folds_branch(op, ctx));
    assert!(rt; op.num_operand(ctx) == operands.len());
    assert!(rt; op.get_parent_block(ctx).is_some());
    let mut rewriter = CountingListener::new();
    rewriter.set_insertion_point_before_operation(op);
    let status = <Bench as BranchOpFoldInterface>::fold_in_place(
        alloc,
        op,
        ctx,
        operands,
        &mut rewriter,
    ).expect(rt, "memory");
    assert!(rt; rewriter.had_room());
    status
}

/// The line where the branch is folded in place, which reports whether it is another one.
pub fn folded(rt: &impl Abort, alloc: Global, ctx: &mut Context, words: &str) -> String {
    let root = read(alloc, ctx, BRANCH).expect(rt, "a text");
    let op = operation_at(ctx, root, "0").expect(rt, "an operation");
    let operands = all_known(alloc, words).expect(rt, "memory");
    let status = fold_in_place(rt, alloc, ctx, op, &operands);
    let line = line(alloc, ctx, root).expect(rt, "a line");
    assert!(rt;
        (status == IRStatus::Changed) == (line.as_str() != BRANCH),
        "{words}"
    );
    line
}

/// An edge and a place of the branch, and the text without the value there.
static LOST: &str = "\
the only value of the first edge -- 0 / 0 => func { b0(v0, v1, v2): cbr v0 b1() b2(v2, v1); b1(v3): ret v3; b2(v4, \
    v5): ret v5 }
the first value of the second edge -- 1 / 0 => func { b0(v0, v1, v2): cbr v0 b1(v1) b2(v1); b1(v3): ret v3; b2(v4, \
    v5): ret v5 }
the last value of the second edge -- 1 / 1 => func { b0(v0, v1, v2): cbr v0 b1(v1) b2(v2); b1(v3): ret v3; b2(v4, \
    v5): ret v5 }";

/// A text whose second block is reached along one edge, and a place at that edge with the line without the
/// value there.
static JUMP: &str = "func { b0(x, y): br b1(x, y); b1(p, q): ret q }";

static FORWARDED: &str = "\
the first value -- 0 => func { b0(v0, v1): br b1(v1); b1(v2, v3): ret v3 }
the last value -- 1 => func { b0(v0, v1): br b1(v0); b1(v2, v3): ret v3 }
past the last value -- 2 => func { b0(v0, v1): br b1(v0, v1); b1(v2, v3): ret v3 }";

/// The line of the branch without the value at this place of this edge.
pub fn without_value(rt: &impl Abort, alloc: Global, ctx: &mut Context, asked: &str) -> String {
    let (edge, place) = fields(asked).expect(rt, "two fields");
    let root = read(alloc, ctx, BRANCH).expect(rt, "a text");
    let op = operation_at(ctx, root, "0").expect(rt, "an operation");
    let edge = number(edge).expect(rt, "a number");
    let place = number(place).expect(rt, "a number");
    let lost = lose::<Bench>(alloc, ctx, op, edge, place).expect(rt, "memory");
    assert!(rt; lost.is_some());
    line(alloc, ctx, root).expect(rt, "a line")
}

/// The line of the jump without the value at this place.
pub fn without_forwarded(rt: &impl Abort, alloc: Global, ctx: &mut Context, place: &str) -> String {
    let root = read(alloc, ctx, JUMP).expect(rt, "a text");
    let op = operation_at(ctx, root, "0").expect(rt, "an operation");
    let place = number(place).expect(rt, "a number");
    let block = lose_along::<Bench>(alloc, ctx, op, place).expect(rt, "memory");
    assert!(rt; block.is_some());
    line(alloc, ctx, root).expect(rt, "a line")
}

#[test]
fn edges_folds_and_losses(rt: HostRuntime) {
    let alloc = rt.alloc();
    check_table(&rt, alloc, Question::Verified, VERIFIED);
    check_table(&rt, alloc, Question::Targets, TARGETS);
    check_table(&rt, alloc, Question::Folded, IN_PLACE);
    check_table(&rt, alloc, Question::Lost, LOST);
    check_table(&rt, alloc, Question::Forwarded, FORWARDED);
}
