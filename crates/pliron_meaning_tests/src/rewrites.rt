//! Whole rewrites at the tiny dialect, which leave every run as it was.
ghost use Rattle.std.specs.Prelude.{◌≡◌, Some, IsTrue};
ghost use Rattle.pliron_core.specs.declared.attrs.AttrObj.TheVariants.{Int};
ghost use Rattle.pliron_core.specs.Tree.{IsLive, head_of};
ghost use Rattle.pliron_evaluator.specs.Tiny.{tiny_kind_of, first_attribute};
ghost use Rattle.pliron_evaluator.specs.declared.tiny.TinyKind.TheVariants.{Const};
ghost use Rattle.pliron_laws.specs.Datum.{Head};

use crate::tiny::{number_asked, number_of};
use pliron_core::{AttrObj, BasicBlock, Context, IRStatus, Operation, Ptr};
use pliron_laws::is_well_linked;
use pliron_pass_rewrites::{is_defined_inside, replace_by_constant_inside};
use pliron_test_cases::evaluator::{Datum, Sight, evaluate};
use pliron_test_cases::listener::CountingListener;
use pliron_test_cases::rewrites::{
    erase_unused, replace_argument_by_constant, replace_result_by_constant,
};
use pliron_test_cases::trees::{TestTree, make};
use pliron_test_cases::{Dialect, Tiny, TinyKind};
use std::alloc::Global;
use std::process::Abort;

/// A constant that is asked, a question and a constant without uses, in a block with an argument.
static STEPS: &str = "scope; block 0 1; const 0 @0; ask @0 v1; const 0 @0";

// What is seen of the run of the root on one input, in a world that answers once.
fn sight_of_root(rt: &impl Abort, alloc: Global, ctx: &Context, root: Ptr<Operation>) -> Sight {
    let inputs = Vec::from_array(alloc, [Datum::Number(3)]).expect(rt, "memory");
    let world = Vec::from_array(alloc, [Datum::Number(8)]).expect(rt, "memory");
    evaluate::<Tiny>(alloc, ctx, root, inputs, world, 100).expect(rt, "memory")
}

// Whether the operation is a constant of this number.
fn makes(ctx: &Context, op: Ptr<Operation>, number: i128) -> bool
    requires { IsLive ctx.now.tree op }
    ensures { (h : Head) → head_of ctx.now.tree op ≡ Some h → IsTrue result → (tiny_kind_of h.kind ≡ Some Const)
        × (first_attribute h.attrs ≡ Int number) }
{
    let head = op.head(ctx);
    matches!(TinyKind::of(head.kind), Some(TinyKind::Const))
        && !head.attrs.is_empty()
        && head.attrs.get(0) == &AttrObj::Int(number)
}

fn erase<D: Dialect>(
    rt: &impl Abort,
    alloc: Global,
    ctx: &mut Context,
    op: Ptr<Operation>,
) -> IRStatus {
    assert!(rt; op.is_live(ctx));
    assert!(rt; op.is_self_contained(ctx));
    let mut rewriter = CountingListener::new();
    let status = erase_unused::<D, CountingListener>(alloc, op, ctx, &mut rewriter).expect(
        rt, "memory",
    );
    assert!(rt; rewriter.had_room());
    status
}

// Replaces the result of a constant of this number by another one of the same number.
fn replace_result(
    rt: &impl Abort,
    alloc: Global,
    ctx: &mut Context,
    op: Ptr<Operation>,
    number: i128,
) -> IRStatus {
    assert!(rt; op.is_live(ctx));
    assert!(rt; op.get_parent_block(ctx).is_some());
    assert!(rt; makes(ctx, op, number));
    assert!(rt; op.num_result(ctx) == 1);
    assert!(rt; op.num_operand(ctx) == 0);
    assert!(rt; op.num_region(ctx) == 0);
    ctx.well_formed();
    let attr = AttrObj::Int(number);
    let mut rewriter = CountingListener::new();
    let status = replace_result_by_constant::<Tiny, CountingListener>(
        alloc,
        op,
        0,
        &attr,
        ctx,
        &mut rewriter,
    ).expect(rt, "memory");
    assert!(rt; rewriter.had_room());
    status
}

// Replaces the argument of the block, which has no uses, by a constant.
fn replace_argument<D: Dialect>(
    rt: &impl Abort,
    alloc: Global,
    ctx: &mut Context,
    body: Ptr<BasicBlock>,
    number: i128,
) -> IRStatus {
    assert!(rt; body.is_live(ctx));
    assert!(rt; body.num_argument(ctx) == 1);
    assert!(rt; body.get_argument(ctx, 0).num_use(ctx) == 0);
    ctx.well_formed();
    let attr = AttrObj::Int(number);
    let mut rewriter = CountingListener::new();
    let status = replace_argument_by_constant::<D, CountingListener>(
        alloc,
        body,
        0,
        &attr,
        ctx,
        &mut rewriter,
    ).expect(rt, "memory");
    assert!(rt; rewriter.had_room());
    status
}

// Replaces the argument of a block inside the holder, which has no uses, by a constant.
fn replace_inside<D: Dialect>(
    rt: &impl Abort,
    alloc: Global,
    ctx: &mut Context,
    holder: Ptr<Operation>,
    body: Ptr<BasicBlock>,
    number: i128,
) -> IRStatus {
    assert!(rt; holder.is_live(ctx));
    assert!(rt; is_well_linked::<D>(holder, ctx));
    assert!(rt; body.is_live(ctx));
    assert!(rt; body.num_argument(ctx) == 1);
    let argument = body.get_argument(ctx, 0);
    assert!(rt; argument.is_live(ctx));
    assert!(rt; is_defined_inside(argument, holder, ctx));
    assert!(rt; argument.num_use(ctx) == 0);
    ctx.well_formed();
    let attr = AttrObj::Int(number);
    let mut rewriter = CountingListener::new();
    let status = replace_by_constant_inside::<D, CountingListener>(
        alloc,
        holder,
        argument,
        &attr,
        ctx,
        &mut rewriter,
    ).expect(rt, "memory");
    assert!(rt; rewriter.had_room());
    status
}

/// What `STEPS` makes.
#[derive(Clone, Copy)]
struct QuestionTree {
    root: Ptr<Operation>,
    body: Ptr<BasicBlock>,
    asked: Ptr<Operation>,
    question: Ptr<Operation>,
    unused: Ptr<Operation>,
}

fn made_in(rt: &impl Abort, alloc: Global, ctx: &mut Context) -> QuestionTree {
    let mut made = TestTree::new(alloc);
    make(alloc, ctx, &mut made, STEPS).expect(rt, "a tree");
    QuestionTree {
        root: made.operation("0").expect(rt, "an operation"),
        body: made.block("0").expect(rt, "a block"),
        asked: made.operation("1").expect(rt, "an operation"),
        question: made.operation("2").expect(rt, "an operation"),
        unused: made.operation("3").expect(rt, "an operation"),
    }
}

// A constant without uses is erased, and a question stays.
fn check_erased(rt: &impl Abort, alloc: Global, ctx: &mut Context, tree: &QuestionTree) {
    assert!(rt; erase::<Tiny>(rt, alloc, ctx, tree.unused) == IRStatus::Changed);
    assert!(rt; !tree.unused.is_live(ctx));
    assert!(rt; erase::<Tiny>(rt, alloc, ctx, tree.question) == IRStatus::Unchanged);
    assert!(rt; tree.question.is_live(ctx));
}

// The question asks the new constant.
fn check_result(rt: &impl Abort, alloc: Global, ctx: &mut Context, tree: &QuestionTree) {
    assert!(rt; replace_result(rt, alloc, ctx, tree.asked, 0) == IRStatus::Changed);
    assert!(rt; number_asked(rt, ctx, tree.asked, tree.question) == Some(0));
}

// The first operation of the block is a constant of this number.
fn check_first(rt: &impl Abort, ctx: &Context, body: Ptr<BasicBlock>, number: i128) {
    assert!(rt; body.is_live(ctx));
    let first = body.get_head(ctx).expect(rt, "a constant");
    assert!(rt; number_of(rt, ctx, first) == Some(number));
}

// The constant for the argument is first in the block, though the argument has no uses.
fn check_argument(rt: &impl Abort, alloc: Global, ctx: &mut Context, tree: &QuestionTree) {
    let status = replace_argument::<Tiny>(rt, alloc, ctx, tree.body, 3);
    assert!(rt; status == IRStatus::Changed);
    check_first(rt, ctx, tree.body, 3)
}

// The same by the call on what is inside the root.
fn check_inside(rt: &impl Abort, alloc: Global, ctx: &mut Context, tree: &QuestionTree) {
    let status = replace_inside::<Tiny>(rt, alloc, ctx, tree.root, tree.body, 5);
    assert!(rt; status == IRStatus::Changed);
    check_first(rt, ctx, tree.body, 5)
}

// The run of the root is as before.
fn check_run(rt: &impl Abort, alloc: Global, ctx: &Context, tree: &QuestionTree, before: &Sight) {
    let after = sight_of_root(rt, alloc, ctx, tree.root);
    assert!(rt; after == *before);
}

fn rewrites_in(rt: &impl Abort, alloc: Global, ctx: &mut Context) {
    let tree = made_in(rt, alloc, ctx);
    let before = sight_of_root(rt, alloc, ctx, tree.root);
    check_erased(rt, alloc, ctx, &tree);
    check_run(rt, alloc, ctx, &tree, &before);
    check_result(rt, alloc, ctx, &tree);
    check_run(rt, alloc, ctx, &tree, &before);
    check_argument(rt, alloc, ctx, &tree);
    check_run(rt, alloc, ctx, &tree, &before);
    check_inside(rt, alloc, ctx, &tree);
    check_run(rt, alloc, ctx, &tree, &before);
}

#[test]
fn rewrites_keep_the_run(rt: HostRuntime) {
    let alloc = rt.alloc();
    let mut ctx = Context::new(alloc);
    rewrites_in(&rt, alloc, &mut ctx)
}
