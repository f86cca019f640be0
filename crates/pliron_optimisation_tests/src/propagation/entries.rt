//! Operations that name operands for their regions: trees of the tiny dialect before and after `sccp`, worked
//! out by hand, and the run of the whole before and after.
//!
//! A case is a name, the number of the operation that `sccp` is called on and the steps of a tree whose operation 0 is
//! a root; and after ` => ` what each question reads then, in the order of making, a number where it is a
//! constant's and `?` elsewhere, and what the root's run emits, the latest first, where `-` is `Empty`. The
//! world answers 1, 2, 3 and 4.
use super::tiny::propagate_operation;
use crate::texts::expect_text;
use pliron_core::{AttrObj, Context, Def, Operation, Ptr, Value};
use pliron_evaluator::evaluator::{Datum, Sight, evaluate};
use pliron_evaluator::{Tiny, TinyKind};
use pliron_test_cases::cases::{CaseRow, fields, row_of};
use pliron_test_cases::trees::{TestTree, make};
use std::alloc::Global;
use std::process::Abort;

const ENOUGH: usize = 200;

/// Constants that are forwarded into regions.
static REGIONS: &str = "\
both, with two operands -- 0 / scope; block 0; const 7 @0; const 5 @0; both @0 v0 v1; block 3 1; block 3 1 1; ask \
    @1 v2; ask @2 v3 => 5 ? / - 5
both, with one operand -- 0 / scope; block 0; const 7 @0; both @0 v0; block 2 1; block 2 1 1; ask @1 v1; ask @2 v2 \
    => ? ? / - -
a question between the constant and a both -- 0 / scope; block 0; const 7 @0; ask @0 v0; both @0 v0 v1; block 3 1; \
    ask @1 v2; block 3 0 1 => 7 ? / 1 7
both, with two arguments -- 0 / scope; block 0; const 7 @0; const 5 @0; both @0 v0 v1; block 3 2; ask @1 v3; block \
    3 0 1 => ? / -
twice -- 0 / scope; block 0; const 7 @0; twice @0 v0; block 2 1; ask @1 v1 => 7 / 7 7
twice, with two operands -- 0 / scope; block 0; const 7 @0; const 5 @0; twice @0 v0 v1; block 3 2; ask @1 v2; ask \
    @1 v3 => 7 ? / - 7 - 7
twice in a twice -- 0 / scope; block 0; const 7 @0; twice @0 v0; block 2 1; twice @1 v1; block 3 1; ask @2 v2 => 7 \
    / 7 7 7 7
twice in a second region of a both -- 0 / scope; block 0; const 7 @0; both @0 v0 v0; block 2; block 2 1 1; twice \
    @2 v1; block 3 1; ask @3 v2 => ? / - -
a scope -- 0 / scope; block 0; const 7 @0; scope @0 v0; block 2 1; ask @1 v1 => ? / 7";

/// Entry blocks that are also successors: the environment's answers are used up.
static SUCCESSORS: &str = "\
a twice that jumps with another constant -- 0 / scope; block 0; const 7 @0; twice @0 v0; block 2 1; const 9 @1; \
    ask @1 v1; br @1 b1 v2 => ? / 9 9 9 9 7
a twice that jumps with the same constant -- 0 / scope; block 0; const 7 @0; twice @0 v0; block 2 1; const 7 @1; \
    ask @1 v1; br @1 b1 v2 => 7 / 7 7 7 7 7
a twice that jumps with its argument -- 0 / scope; block 0; const 7 @0; twice @0 v0; block 2 1; ask @1 v1; br @1 \
    b1 v1 => 7 / 7 7 7 7 7
a twice that jumps with an answer -- 0 / scope; block 0; const 7 @0; twice @0 v0; block 2 1; ask @1 v1; br @1 b1 \
    v2 => ? / 4 3 2 1 7
a both that jumps with another constant -- 0 / scope; block 0; const 7 @0; both @0 v0 v0; block 2 1; const 9 @1; \
    ask @1 v1; br @1 b1 v2; block 2 0 1 => ? / 9 9 9 9 7
a both that jumps with the same constant -- 0 / scope; block 0; const 7 @0; both @0 v0 v0; block 2 1; const 7 @1; \
    ask @1 v1; br @1 b1 v2; block 2 0 1 => 7 / 7 7 7 7 7";

/// Calls on what names operands itself: whatever may come in at its own entries.
static CALLED: &str = "\
both as the root -- 3 / scope; block 0; const 7 @0; const 5 @0; both @0 v0 v1; block 3 1; block 3 1 1; ask @1 v2; \
    ask @2 v3 => ? ? / - 5
twice as the root -- 2 / scope; block 0; const 7 @0; twice @0 v0; block 2 1; ask @1 v1 => ? / 7 7
a twice in a twice that is the root -- 2 / scope; block 0; const 7 @0; twice @0 v0; block 2 1; const 3 @1; twice \
    @1 v2; block 4 1; ask @2 v3; ask @1 v1 => 3 ? / 3 3 7 3 3";

// What is known of the value: the number of the constant that makes it.
fn number_of(ctx: &Context, value: Value) -> Option<i128> {
    if !value.is_live(ctx) {
        return None;
    }
    let Def::Result(maker, _) = value.def(ctx) else {
        return None;
    };
    if !maker.is_live(ctx) || TinyKind::of(maker.head(ctx).kind) != Some(TinyKind::Const) {
        return None;
    }
    let attrs = &maker.head(ctx).attrs;
    if attrs.is_empty() {
        return None;
    }
    match attrs.get(0) {
        AttrObj::Int(number) => Some(*number),
        AttrObj::Text(_) => None,
    }
}

// The operand of a question.
fn question_operand(ctx: &Context, op: Ptr<Operation>) -> Option<Value> {
    if !op.is_live(ctx) || op.num_operand(ctx) == 0 {
        return None;
    }
    if TinyKind::of(op.head(ctx).kind) == Some(TinyKind::Ask) {
        Some(op.get_operand(ctx, 0))
    } else {
        None
    }
}

// What each question reads.
fn entry_answers(
    rt: &impl Abort,
    alloc: Global,
    ctx: &Context,
    operations: &[Ptr<Operation>],
) -> String {
    let mut all = String::new(alloc);
    for op in operations {
        let Some(value) = question_operand(ctx, *op) else {
            continue;
        };
        match number_of(ctx, value) {
            Some(number) => write!(all, "{number} ").expect(rt, "memory"),
            None => write!(all, "? ").expect(rt, "memory"),
        }
    }
    all
}

// What is seen of the root's run.
fn sight_of_root(rt: &impl Abort, alloc: Global, ctx: &Context, root: Ptr<Operation>) -> Sight {
    let world = Vec::from_array(
        alloc,
        [
            Datum::Number(1),
            Datum::Number(2),
            Datum::Number(3),
            Datum::Number(4),
        ],
    )
    .expect(rt, "memory");
    evaluate::<Tiny>(alloc, ctx, root, Vec::new(alloc), world, ENOUGH).expect(rt, "memory")
}

// What it emits, the latest first.
fn sight_text(rt: &impl Abort, alloc: Global, sight: &Sight) -> String {
    let effects = match sight {
        Sight::Ended(_, effects) => effects,
        Sight::Trapped(effects) => effects,
        Sight::Reached(effects) => effects,
    };
    let mut all = String::new(alloc);
    for effect in effects {
        match effect {
            Datum::Number(number) => write!(all, " {number}").expect(rt, "memory"),
            Datum::Empty => write!(all, " -").expect(rt, "memory"),
            _ => write!(all, " other").expect(rt, "memory"),
        }
    }
    all
}

// What the questions read, and what the run emits.
fn said(
    rt: &impl Abort,
    alloc: Global,
    ctx: &Context,
    operations: &[Ptr<Operation>],
    sight: &Sight,
) -> String {
    let asked = entry_answers(rt, alloc, ctx, operations);
    let reported = sight_text(rt, alloc, sight);
    format!(in alloc; "{asked}/{reported}").expect(rt, "memory")
}

// Propagates in the operation with this index. Answers what is said then; the run is as before.
fn propagated(
    rt: &impl Abort,
    alloc: Global,
    ctx: &mut Context,
    made: &TestTree,
    index: &str,
) -> String {
    let root = made.operation("0").expect(rt, "a root");
    let called = made.operation(index).expect(rt, "an operation");
    let before = sight_of_root(rt, alloc, ctx, root);
    propagate_operation::<Tiny>(rt, alloc, ctx, called);
    let after = sight_of_root(rt, alloc, ctx, root);
    assert!(rt; before == after, "{index}");
    said(rt, alloc, ctx, &made.operations, &after)
}

fn case_in(rt: &impl Abort, alloc: Global, ctx: &mut Context, case: &str) {
    let CaseRow { name, asked, want } = row_of(case).expect(rt, "a case");
    let (index, steps) = fields(asked).expect(rt, "a number");
    let mut made = TestTree::new(alloc);
    make(alloc, ctx, &mut made, steps).expect(rt, "a tree");
    let got = propagated(rt, alloc, ctx, &made, index);
    expect_text(rt, got.as_str(), want, name);
}

fn check(rt: &impl Abort, alloc: Global, case: &str) {
    let mut ctx = Context::new(alloc);
    case_in(rt, alloc, &mut ctx, case);
}

fn cases(rt: &impl Abort, alloc: Global, lines: &str) {
    for case in lines.lines() {
        check(rt, alloc, case);
    }
}

#[test]
fn constants_fall_into_regions(rt: HostRuntime) {
    cases(&rt, rt.alloc(), REGIONS)
}

#[test]
fn entries_that_are_successors(rt: HostRuntime) {
    cases(&rt, rt.alloc(), SUCCESSORS)
}

#[test]
fn entries_of_what_is_called(rt: HostRuntime) {
    cases(&rt, rt.alloc(), CALLED)
}
