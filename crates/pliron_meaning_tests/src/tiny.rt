//! What the tiny dialect answers, asked through the traits, and folding by constants that are put for
//! results.
use crate::questions::{Question, check_table};
use pliron_core::{AttrObj, Context, IRRewriter, IRStatus, Operation, Ptr, Rewriter, Value};
use pliron_test_cases::answers::{effects, entry_operand_of, interfaces, removable};
use pliron_test_cases::cases::number;
use pliron_test_cases::listener::CountingListener;
use pliron_test_cases::losses::lose;
use pliron_test_cases::trees::{TestTree, build, make};
use pliron_test_cases::{
    BranchOpFoldInterface, ConstFoldInterface, Dialect, Room, Tiny, TinyKind, edges_last,
};
use std::alloc::Global;
use std::process::Abort;

/// Operations of trees, and what is said of their heads: on side effects, whether they fold, whether they
/// fold as branches, and their interfaces.
static HEADS: &str = "\
a constant -- 1 / scope; block 0; const 0 @0 => Some(false) true false SideEffects ConstFold
a scope -- 0 / scope; block 0; block 0 1 => Some(true) false false SideEffects BlockArgRemoval
a jump -- 2 / scope; block 0; block 0 1; const 1 @0; br @0 b1 v1 v1 => None false false Branch Terminator
both -- 0 / both => Some(true) false false SideEffects BlockArgRemoval RegionBranch
twice -- 2 / scope; block 0; const 1 @0; twice @0 v0 => Some(true) false false SideEffects BlockArgRemoval \
    RegionBranch";

/// Operations of trees, blocks of them, and whether their arguments may be removed.
static REMOVALS: &str = "\
the entry of a scope -- 0 / scope; block 0; block 0 1 / 0 => Some(false)
the second block of a scope -- 0 / scope; block 0; block 0 1 / 1 => Some(true)
the entry of a twice -- 0 / twice; block 0; block 0 1 / 0 => Some(false)
the second block of a twice -- 0 / twice; block 0; block 0 1 / 1 => Some(true)";

/// Operations of trees, regions of them and arguments there, and the operands that are named for these.
static NAMED: &str = "\
both, first region -- 1 / scope; block 0 2; both @0 v0 v1; block 1 2; block 1 1 1 / 0 0 => Some(1)
both, second argument of the first region -- 1 / scope; block 0 2; both @0 v0 v1; block 1 2; block 1 1 1 / 0 1 => \
    None
both, second region -- 1 / scope; block 0 2; both @0 v0 v1; block 1 2; block 1 1 1 / 1 0 => None
both, with one operand -- 1 / scope; block 0 2; both @0 v0; block 1 2; block 1 1 1 / 0 0 => None
twice, first argument -- 1 / scope; block 0 2; twice @0 v0 v1; block 1 2 / 0 0 => Some(0)
twice, second argument -- 1 / scope; block 0 2; twice @0 v0 v1; block 1 2 / 0 1 => None
a scope -- 1 / scope; block 0 2; scope @0 v0 v1; block 1 2 / 0 0 => None";

/// What is said of the head of an operation.
pub fn head(rt: &impl Abort, alloc: Global, ctx: &mut Context, case: &str) -> String {
    let op = build(alloc, ctx, case).expect(rt, "a tree");
    let effects = effects::<Tiny>(alloc, ctx, op).expect(rt, "an answer");
    let interfaces = interfaces::<Tiny>(alloc, ctx, op).expect(rt, "an answer");
    assert!(rt; op.is_live(ctx));
    assert!(rt; Tiny::is_branch(op, ctx) == Tiny::is_terminator(op, ctx));
    assert!(rt; Tiny::is_branch(op, ctx) == (effects.as_str() == "None"));
    let folds = Tiny::folds(op, ctx);
    let folds_branch = Tiny::folds_branch(op, ctx);
    format!(in alloc; "{effects} {folds} {folds_branch}{interfaces}").expect(rt, "memory")
}

/// Whether arguments may be removed from the block with the index behind the steps.
pub fn removal(rt: &impl Abort, alloc: Global, ctx: &mut Context, asked: &str) -> String {
    let (steps, index) = asked.rsplit_once(" / ").expect(rt, "a block");
    let op = build(alloc, ctx, steps).expect(rt, "a tree");
    let index = number(index).expect(rt, "a number");
    removable::<Tiny>(alloc, ctx, op, index).expect(rt, "an answer")
}

/// The operand that is named for the argument of the region, both behind the steps.
pub fn named_operand(rt: &impl Abort, alloc: Global, ctx: &mut Context, asked: &str) -> String {
    let (steps, place) = asked.rsplit_once(" / ").expect(rt, "a place");
    let (region, argument) = place.split_once(' ').expect(rt, "an argument");
    let op = build(alloc, ctx, steps).expect(rt, "a tree");
    let region = number(region).expect(rt, "a number");
    let argument = number(argument).expect(rt, "a number");
    entry_operand_of::<Tiny>(alloc, ctx, op, region, argument).expect(rt, "an answer")
}

/// Trees, and whether edges are last in the first operation and in the second, which is in it.
static EDGES: &str = "\
no edges -- scope; block 0; block 0; scope @0; block 1 => true true
edges at the ends of blocks -- scope; block 0; block 0; scope @0; block 1; br @0 b1; br @2 b2 => true true
an edge in mid-block -- scope; block 0; block 0; scope @0; block 1; br @0 b1; br @0 b1 => false true
an edge into a region -- scope; block 0; block 0; scope @0; block 1; br @0 b2 => false false
an edge out of a region -- scope; block 0; block 0; scope @0; block 1; br @2 b1 => false false
an edge of an operation with a region, in mid-block -- scope; block 0; block 0; scope @0; block 1; br @0 b1; on 1 \
    b1 => false true";

// Whether edges are last in the operation that was made with this number.
fn are_edges_last(rt: &impl Abort, ctx: &Context, made: &TestTree, number: &str) -> bool {
    let op = made.operation(number).expect(rt, "an operation");
    assert!(rt; op.is_live(ctx));
    edges_last(op, ctx)
}

/// Whether edges are last in the first two operations of the steps.
pub fn edges_of(rt: &impl Abort, alloc: Global, ctx: &mut Context, steps: &str) -> String {
    let mut made = TestTree::new(alloc);
    make(alloc, ctx, &mut made, steps).expect(rt, "a tree");
    let outer = are_edges_last(rt, ctx, &made, "0");
    let inner = are_edges_last(rt, ctx, &made, "1");
    format!(in alloc; "{outer} {inner}").expect(rt, "memory")
}

// The operation in a block is a constant of this number and folds to it. Folding in place leaves it.
fn constant_in(rt: &impl Abort, alloc: Global, ctx: &mut Context) {
    let op = build(alloc, ctx, "1 / scope; block 0; const 0 @0").expect(rt, "a tree");
    assert!(rt; op.is_live(ctx));
    assert!(rt; Tiny::folds(op, ctx));
    assert!(rt; op.num_operand(ctx) == 0);
    assert!(rt; op.get_parent_block(ctx).is_some());
    let answers = <Tiny as ConstFoldInterface>::check_fold(alloc, op, ctx, &[]).expect(
        rt, "memory",
    );
    assert!(rt; answers.len() == 1);
    assert!(rt; answers[0] == Some(AttrObj::Int(0)));
    let mut rewriter = IRRewriter::new();
    rewriter.set_insertion_point_before_operation(op);
    rewriter.room(alloc, 2).expect(rt, "memory");
    let status = <Tiny as ConstFoldInterface>::fold_in_place(
        alloc,
        op,
        ctx,
        &[],
        &mut rewriter,
    ).expect(rt, "memory");
    assert!(rt; status == IRStatus::Unchanged);
    assert!(rt;
        Tiny::materialize(alloc, &AttrObj::Int(0), ctx)
            .expect(rt, "memory")
            .is_some()
    );
}

// Folds the operation, which has no operands, by constants.
fn fold<D: Dialect>(
    rt: &impl Abort,
    alloc: Global,
    ctx: &mut Context,
    op: Ptr<Operation>,
) -> IRStatus {
    assert!(rt; op.is_live(ctx));
    assert!(rt; D::folds(op, ctx));
    assert!(rt; op.num_operand(ctx) == 0);
    assert!(rt; op.get_parent_block(ctx).is_some());
    let mut rewriter = CountingListener::new();
    rewriter.set_insertion_point_before_operation(op);
    let status = D::fold_with_materialization(alloc, op, ctx, &[], &mut rewriter).expect(
        rt, "memory",
    );
    assert!(rt; rewriter.had_room());
    status
}

/// The number of the constant that the question asks, which is just before `op`.
pub(crate) fn number_asked(
    rt: &impl Abort,
    ctx: &Context,
    op: Ptr<Operation>,
    question: Ptr<Operation>,
) -> Option<i128> {
    assert!(rt; op.is_live(ctx));
    assert!(rt; question.is_live(ctx));
    assert!(rt; question.num_operand(ctx) == 1);
    let before = op.get_prev(ctx).expect(rt, "a constant");
    assert!(rt; before.num_result(ctx) == 1);
    assert!(rt; question.get_operand(ctx, 0) == before.get_result(ctx, 0));
    number_of(rt, ctx, before)
}

/// The number of the operation, if it is a constant of one.
pub(crate) fn number_of(rt: &impl Abort, ctx: &Context, op: Ptr<Operation>) -> Option<i128> {
    assert!(rt; op.is_live(ctx));
    let head = op.head(ctx);
    assert!(rt; TinyKind::of(head.kind) == Some(TinyKind::Const));
    assert!(rt; head.attrs.len() == 1);
    match head.attrs.get(0) {
        AttrObj::Int(number) => Some(*number),
        AttrObj::Text(_) => None,
    }
}

fn folding_in(rt: &impl Abort, alloc: Global, ctx: &mut Context) {
    let mut made = TestTree::new(alloc);
    make(
        alloc,
        ctx,
        &mut made,
        "scope; block 0; const 0 @0; ask @0 v0",
    )
    .expect(rt, "a tree");
    let op = made.operation("1").expect(rt, "an operation");
    assert!(rt; fold::<Tiny>(rt, alloc, ctx, op) == IRStatus::Changed);
    let question = made.operation("2").expect(rt, "an operation");
    assert!(rt; number_asked(rt, ctx, op, question) == Some(0));
}

// The values that the branch forwards along its edge.
fn check_forwarded(
    rt: &impl Abort,
    alloc: Global,
    ctx: &Context,
    op: Ptr<Operation>,
    want: &[Value],
) {
    assert!(rt; op.is_live(ctx));
    assert!(rt; Tiny::is_branch(op, ctx));
    assert!(rt; op.num_successor(ctx) == 1);
    let values = Tiny::successor_operands(alloc, op, ctx, 0).expect(rt, "memory");
    assert!(rt; values.as_slice() == want);
}

fn loss_in(rt: &impl Abort, alloc: Global, ctx: &mut Context) {
    let mut made = TestTree::new(alloc);
    make(
        alloc,
        ctx,
        &mut made,
        "scope; block 0; block 0 1; const 1 @0; br @0 b1 v1 v1",
    )
    .expect(rt, "a tree");
    let op = made.operation("2").expect(rt, "an operation");
    let value = made.value("1").expect(rt, "a value");
    check_forwarded(rt, alloc, ctx, op, &[value, value]);
    lose::<Tiny>(alloc, ctx, op, 0, 0)
        .expect(rt, "memory")
        .expect(rt, "a value");
    check_forwarded(rt, alloc, ctx, op, &[value])
}

#[test]
fn kinds_and_their_numbers(rt: HostRuntime) {
    for kind in &[
        TinyKind::Const,
        TinyKind::Ask,
        TinyKind::Scope,
        TinyKind::Br,
        TinyKind::Both,
        TinyKind::Twice,
    ] {
        assert!(rt; TinyKind::of(kind.number()) == Some(*kind));
    }
    assert!(rt; TinyKind::of(6).is_none());
}

fn folds_in(rt: &impl Abort, alloc: Global, ctx: &mut Context) {
    constant_in(rt, alloc, ctx);
    folding_in(rt, alloc, ctx);
    loss_in(rt, alloc, ctx);
}

#[test]
fn folds_and_losses(rt: HostRuntime) {
    let alloc = rt.alloc();
    let mut ctx = Context::new(alloc);
    folds_in(&rt, alloc, &mut ctx)
}

#[test]
fn answers_on_trees(rt: HostRuntime) {
    let alloc = rt.alloc();
    check_table(&rt, alloc, Question::TinyHeads, HEADS);
    check_table(&rt, alloc, Question::TinyRemovals, REMOVALS);
    check_table(&rt, alloc, Question::TinyNamed, NAMED);
    check_table(&rt, alloc, Question::TinyEdges, EDGES);
}
