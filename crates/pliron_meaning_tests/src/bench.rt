//! What the dialect `Bench` answers, on texts of its notation and asked through the traits, and what
//! folding constants in place leaves: by values worked out by hand.
use crate::questions::{Question, check_table, operation_in};
use pliron_core::{AttrObj, Context, IRStatus, Operation, Ptr, Rewriter};
use pliron_test_cases::answers::{effects, interfaces, removable};
use pliron_test_cases::bench::{Bench, BenchKind};
use pliron_test_cases::cases::{
    all_known, fields, known_operand, line, number, operation_at, read,
};
use pliron_test_cases::listener::CountingListener;
use pliron_test_cases::trees::build;
use pliron_test_cases::{BlockArgRemoval, ConstFoldInterface, Dialect, SideEffects};
use std::alloc::Global;
use std::process::Abort;

/// An operation of each kind but the branches.
static KINDS: &str =
    "func { b0(): a = const 1; b = add a a; c = mul a a; d = div a a; e = read; print a; f, g = pair; sink a; scope a { b0(): }; box { }; ret a }";

/// Their answers on side effects.
static EFFECTS: &str = "\
a function -- root => None
a constant -- 0 => Some(false)
a sum -- 1 => Some(false)
a product -- 2 => Some(false)
a quotient -- 3 => Some(true)
a read -- 4 => Some(true)
a print -- 5 => Some(true)
a pair -- 6 => Some(false)
a sink -- 7 => Some(false)
a scope -- 8 => Some(true)
a box -- 9 => Some(false)
a return -- 10 => None";

/// Texts and the interfaces that the first operation implements.
static INTERFACES: &str = "\
a jump -- func { b0(): br b0() } => Branch Terminator
a branch -- func { b0(c): cbr c b0(c) b0(c) } => BranchFold Branch Terminator
a fork -- func { b0(a): fork a b0 b0 } => Terminator
a return -- func { b0(): ret } => Terminator
a module -- mod { b0(): mod { } } =>
a function -- mod { b0(): func { b0(): } } => BlockArgRemoval
a constant -- func { b0(): a = const 1 } => SideEffects ConstFold
a read -- func { b0(): a = read } => SideEffects
a scope -- func { b0(): scope { b0(): } } => SideEffects BlockArgRemoval RegionBranch
a box -- func { b0(): box { } } => SideEffects BlockArgRemoval";

/// Three operations with two blocks each.
static HOLDERS: &str =
    "func { b0(): scope { b0(): br b1(); b1(): }; box { b0(): br b1(); b1(): }; br b1(); b1(): }";

/// Places of operations and blocks in them, and whether arguments of the blocks may be removed.
static REMOVALS: &str = "\
the entry of a function -- root / 0 => Some(false)
the second block of a function -- root / 1 => Some(true)
the entry of a scope -- 0 / 0 => Some(false)
the second block of a scope -- 0 / 1 => Some(true)
the entry of a box -- 1 / 0 => Some(true)
the second block of a box -- 1 / 1 => Some(true)";

/// The answer on side effects of the operation of `KINDS` at this place.
pub fn effects_at(rt: &impl Abort, alloc: Global, ctx: &mut Context, place: &str) -> String {
    let op = operation_in(rt, alloc, ctx, KINDS, place);
    effects::<Bench>(alloc, ctx, op).expect(rt, "an answer")
}

/// The interfaces of the first operation of the text.
pub fn interfaces_of(rt: &impl Abort, alloc: Global, ctx: &mut Context, text: &str) -> String {
    let op = operation_in(rt, alloc, ctx, text, "0");
    let all = interfaces::<Bench>(alloc, ctx, op).expect(rt, "an answer");
    String::from_str(alloc, all.trim()).expect(rt, "memory")
}

/// Whether arguments may be removed from the block with the index behind the place of an operation of `HOLDERS`.
pub fn removal(rt: &impl Abort, alloc: Global, ctx: &mut Context, asked: &str) -> String {
    let (place, index) = fields(asked).expect(rt, "two fields");
    let op = operation_in(rt, alloc, ctx, HOLDERS, place);
    let index = number(index).expect(rt, "a number");
    removable::<Bench>(alloc, ctx, op, index).expect(rt, "an answer")
}

// An operation of another dialect: this one has no answer on it.
fn check_outside(rt: &impl Abort, alloc: Global, ctx: &mut Context) {
    let op = build(alloc, ctx, "0 / kind 16").expect(rt, "a tree");
    assert!(rt; op.is_live(ctx));
    assert!(rt; !Bench::admits(op, ctx));
    assert!(rt; Bench::has_side_effects(op, ctx).is_none());
    assert!(rt; !Bench::folds(op, ctx));
    assert!(rt; !Bench::is_terminator(op, ctx));
    assert!(rt; !Bench::is_branch(op, ctx));
    assert!(rt; !Bench::is_kind(op, ctx, BenchKind::Fork));
}

/// What is known of both operands, and what is known of the result then.
static SUMS: &str = "\
small numbers -- 1 2 => 3
past the greatest -- 9223372036854775807 1 => -9223372036854775808
past the least -- -9223372036854775808 -1 => 9223372036854775807
one above the greatest -- 9223372036854775808 0 => -9223372036854775808
above 64 bits -- 18446744073709551617 1 => 2
a text, which counts as 0 -- '7 5 => 5
the second unknown -- 1 ? => ?
the first unknown -- ? 0 => ?
both unknown -- ? ? => ?";

static PRODUCTS: &str = "\
a negative number -- 3 -2 => -6
past the greatest -- 9223372036854775807 2 => -2
0 first -- 0 ? => 0
0 second -- ? 0 => 0
a number that is 0 in 64 bits -- ? 18446744073709551616 => 0
the second unknown -- 3 ? => ?
both unknown -- ? ? => ?";

static QUOTIENTS: &str = "\
rounded to 0 -- 7 2 => 3
a negative dividend -- -7 2 => -3
a negative divisor -- 7 -2 => -3
the least by 1 -- -9223372036854775808 1 => -9223372036854775808
the least by -1 -- -9223372036854775808 -1 => ?
a number by 0 -- 7 0 => ?
0 by 0 -- 0 0 => ?
0 by an unknown one -- 0 ? => ?
an unknown one by 1 -- ? 1 => ?";

// The number in the only answer.
fn only_number(rt: &impl Abort, answers: &[Option<AttrObj>]) -> Option<i128> {
    assert!(rt; answers.len() == 1);
    match &answers[0] {
        Some(AttrObj::Int(number)) => Some(*number),
        Some(AttrObj::Text(_)) => panic!(rt; "a text"),
        None => None,
    }
}

// What is known of the operation's only result.
fn known_result(
    rt: &impl Abort,
    alloc: Global,
    ctx: &Context,
    op: Ptr<Operation>,
    words: &str,
) -> Option<i128> {
    let operands = all_known(alloc, words).expect(rt, "memory");
    assert!(rt; op.is_live(ctx));
    assert!(rt; Bench::folds(op, ctx));
    assert!(rt; op.num_operand(ctx) == operands.len());
    let answers = <Bench as ConstFoldInterface>::check_fold(
        alloc,
        op,
        ctx,
        operands.as_slice(),
    ).expect(rt, "memory");
    only_number(rt, answers.as_slice())
}

// The number, or `?` for none.
fn number_text(rt: &impl Abort, alloc: Global, number: Option<i128>) -> String {
    match number {
        Some(number) => format!(in alloc; "{number}").expect(rt, "memory"),
        None => String::from_str(alloc, "?").expect(rt, "memory"),
    }
}

/// What is known of the result of the sum, the product or the quotient, by its place.
pub fn fold(rt: &impl Abort, alloc: Global, ctx: &mut Context, place: &str, words: &str) -> String {
    let text = "func { b0(x, y): a = add x y; b = mul x y; c = div x y }";
    let op = operation_in(rt, alloc, ctx, text, place);
    let known = known_result(rt, alloc, ctx, op, words);
    number_text(rt, alloc, known)
}

/// What is known of the operands of the first operation, its text, and what folding it in place leaves.
static IN_PLACE: &str = "\
a sum -- 1 2 / func { b0(v0, v1): v2 = add v0 v1; print v2; ret v2 } => func { b0(v0, v1): v2 = const 3; v3 = add \
    v0 v1; print v2; ret v2 }
a product with 0 -- ? 0 / func { b0(v0, v1): v2 = mul v0 v1; ret v2 } => func { b0(v0, v1): v2 = const 0; v3 = mul \
    v0 v1; ret v2 }
a quotient by 0 -- 7 0 / func { b0(v0, v1): v2 = div v0 v1; ret v2 } => func { b0(v0, v1): v2 = div v0 v1; ret v2 }
a constant --  / func { b0(): v0 = const 7; ret v0 } => func { b0(): v0 = const 7; ret v0 }";

// Folds the operation in place.
fn fold_in_place(
    rt: &impl Abort,
    alloc: Global,
    ctx: &mut Context,
    op: Ptr<Operation>,
    words: &str,
) -> IRStatus {
    let operands = all_known(alloc, words).expect(rt, "memory");
    assert!(rt; op.is_live(ctx));
    assert!(rt; Bench::folds(op, ctx));
    assert!(rt; op.num_operand(ctx) == operands.len());
    assert!(rt; op.get_parent_block(ctx).is_some());
    let mut rewriter = CountingListener::new();
    rewriter.set_insertion_point_before_operation(op);
    let operands = operands.as_slice();
    let status = <Bench as ConstFoldInterface>::fold_in_place(
        alloc,
        op,
        ctx,
        operands,
        &mut rewriter,
    ).expect(rt, "memory");
    assert!(rt; rewriter.had_room());
    status
}

/// The line where the first operation of the text is folded in place, which reports whether it is another one.
pub fn folded_in_place(rt: &impl Abort, alloc: Global, ctx: &mut Context, asked: &str) -> String {
    let (words, text) = fields(asked).expect(rt, "two fields");
    let root = read(alloc, ctx, text).expect(rt, "a text");
    let op = operation_at(ctx, root, "0").expect(rt, "an operation");
    let status = fold_in_place(rt, alloc, ctx, op, words);
    let line = line(alloc, ctx, root).expect(rt, "a line");
    assert!(rt;
        (status == IRStatus::Changed) == (line.as_str() != text),
        "{text}"
    );
    line
}

/// Data, and the number of the constant that is made of them: of 64-bit numbers alone.
static MADE: &str = "\
a text -- '7 => ?
above the greatest -- 9223372036854775808 => ?
below the least -- -9223372036854775809 => ?
the greatest -- 9223372036854775807 => 9223372036854775807
the least -- -9223372036854775808 => -9223372036854775808";

// The number of the constant that is made of the datum.
fn made_number(rt: &impl Abort, alloc: Global, ctx: &mut Context, word: &str) -> Option<i128> {
    let attr = known_operand(alloc, word)
        .expect(rt, "memory")
        .expect(rt, "a datum");
    match Bench::materialize(alloc, &attr, ctx).expect(rt, "memory") {
        Some(op) => known_result(rt, alloc, ctx, op, ""),
        None => None,
    }
}

/// The number of the constant that is made of the datum.
pub fn number_made(rt: &impl Abort, alloc: Global, ctx: &mut Context, word: &str) -> String {
    let number = made_number(rt, alloc, ctx, word);
    number_text(rt, alloc, number)
}

#[test]
fn an_operation_of_another_dialect(rt: HostRuntime) {
    let mut ctx = Context::new(rt.alloc());
    check_outside(&rt, rt.alloc(), &mut ctx)
}

#[test]
fn answers_and_folds(rt: HostRuntime) {
    let alloc = rt.alloc();
    check_table(&rt, alloc, Question::Effects, EFFECTS);
    check_table(&rt, alloc, Question::Interfaces, INTERFACES);
    check_table(&rt, alloc, Question::Removals, REMOVALS);
    check_table(&rt, alloc, Question::Sums, SUMS);
    check_table(&rt, alloc, Question::Products, PRODUCTS);
    check_table(&rt, alloc, Question::Quotients, QUOTIENTS);
    check_table(&rt, alloc, Question::InPlace, IN_PLACE);
    check_table(&rt, alloc, Question::TestTree, MADE);
}
