//! Operations, and what keeps them from being fit to run: each kind of violation with a small tree that has it, and
//! one beside it that has none.
use super::expect::expect_text;
use super::traps::Traps;
use pliron_core::{Context, Operation, Ptr};
use pliron_dialect_bench::Bench;
use pliron_laws::Dialect;
use pliron_pass_fit::{find_violation, is_fit};
use pliron_test_cases::Tiny;
use pliron_test_cases::cases::{CaseRow, fields, operation_at, read, row_of};
use pliron_test_cases::trees::build;
use std::alloc::Global;
use std::process::Abort;

/// Trees of the tiny dialect, with the number of the root first.
static TREES: &str = "\
a constant in a scope -- 0 / scope; block 0; const 0 @0 => fit
an operation of no kind in a scope -- 0 / scope; block 0; kind 9 @0 => the dialect does not admit operation 1
an operation of no kind -- 0 / kind 9 => the dialect does not admit operation 0
a constant as the root -- 1 / scope; block 0; const 0 @0 => fit
a jump in a scope -- 0 / scope; block 0; block 0; br @0 b1 => fit
a jump as the root -- 1 / scope; block 0; block 0; br @0 b1 => the root has successors
a jump in mid-block -- 0 / scope; block 0; block 0; br @0 b1; const 0 @0 => an edge of operation 1 does not end \
    its block, or leads to another region
a jump into a region -- 0 / scope; block 0; scope @0; block 1; br @0 b1 => an edge of operation 2 does not end \
    its block, or leads to another region
a jump into the root -- 1 / scope; block 0; scope @0; block 1; br @0 b1 => an edge of operation 2 does not end \
    its block, or leads to another region
a question as the root -- 2 / scope; block 0; const 0 @0; ask @0 v0 => fit
an operand from outside the root -- 2 / scope; block 0; const 0 @0; scope @0; block 2; ask @1 v0 => operand 0 of \
    operation 3 is made outside the root
too few values -- 0 / scope; block 0; block 0 1; br @0 b1 => edge 0 of operation 1 forwards another number of \
    values than its target takes
as many values as arguments -- 0 / scope; block 0; block 0 1; const 0 @0; br @0 b1 v1 => fit
a use outside the root of a value inside -- 1 / scope; block 0; scope @0; block 1; const 0 @1; ask @0 v0 => \
    operand 0 of operation 3, which stands outside the root, is made inside it
a use behind a region of a value inside -- 0 / scope; block 0; scope @0; block 1; const 0 @1; ask @0 v0 => the \
    definition of operand 0 does not dominate operation 3
a use before the definition -- 0 / scope; block 0; const 0; ask @0 v0; on 1 @0 => the definition of operand 0 does \
    not dominate operation 2
a use in a region behind the definition -- 0 / scope; block 0; const 0 @0; scope @0; block 2; ask @1 v0 => fit
a use in a region before the definition -- 0 / scope; block 0; const 0; scope @0; block 2; ask @1 v0; on 1 @0 => \
    the definition of operand 0 does not dominate operation 3
a use of a value of an unreached block -- 0 / scope; block 0; block 0; block 0; const 0 @1; br @0 b2; br @1 b2; \
    ask @2 v0 => the definition of operand 0 does not dominate operation 4
a use behind a jump, defined before it -- 0 / scope; block 0; block 0; block 0; const 0 @0; br @0 b2; br @1 b2; ask \
    @2 v0 => fit
a use of an argument of an unreached block -- 0 / scope; block 0; block 0 1; block 0; br @0 b2; br @1 b2; ask @2 v0 => the \
    definition of operand 0 does not dominate operation 3
a use behind its definition in an unreached block -- 0 / scope; block 0; block 0; const 0 @1; ask @1 v0 => fit
a use before its definition in an unreached block -- 0 / scope; block 0; block 0; const 0; ask @1 v0; on 1 @1 => fit
a use before its definition in a reached block -- 0 / scope; block 0; block 0; br @0 b1; const 0; ask @1 v0; on 2 \
    @1 => the definition of operand 0 does not dominate operation 3
both and twice -- 0 / scope; block 0; const 0 @0; twice @0 v0; block 2 1; both @1 v1 v1; block 3 1; block 3 0 1 => \
    fit
a twice without an operand -- 0 / scope; block 0; twice @0; block 1 => the dialect does not admit operation 1
a both without operands as the root -- 1 / scope; block 0; both @0; block 1; block 1 0 1 => runs may not begin at \
    the operation";

/// Trees of a dialect in which runs may not begin at kind 9, and what has successors may have results.
static TRAPS: &str = "\
a kind at which runs may begin -- 0 / kind 8 => fit
a kind at which runs may not begin -- 0 / kind 9 => runs may not begin at the operation
successors and an unused result -- 0 / scope; block 0; block 0; kind 8 @0 b1; kind 8 @1 => fit
successors and a used result -- 0 / scope; block 0; block 0; kind 8 @0 b1; kind 8 @1 v0 => result 0 of operation \
    1, which has successors, is used";

/// Texts of `Bench`, with the place of the root first.
static TEXTS: &str = "\
a function -- root / func { b0(x): ret x } => fit
a module as the root -- root / mod { b0(): func { b0(): ret } } => region 0 has no dominance
a function in a module -- 0 / mod { b0(): func { b0(): ret } } => fit
a scope as the root -- 0 / func { b0(): scope { c0(): ret }; ret } => runs may not begin at the operation
a function round a scope -- root / func { b0(): scope { c0(): ret }; ret } => fit
an operation behind a return -- root / func { b0(): ret; a = const 1 } => terminator 1 is not the last of its block
a use behind a join, defined on one side -- root / func { b0(x): cbr x b1() b2(); b1(): a = const 1; br b3(); \
    b2(): br b3(); b3(): ret a } => the definition of operand 0 does not dominate operation 5
a use behind a join of an argument -- root / func { b0(x): cbr x b1() b2(); b1(): br b3(); b2(): br b3(); b3(): \
    ret x } => fit
a use in a region of a block before the definition -- root / func { b0(): br b1(); b1(): scope { c0(): br c1(); \
    c1(): print a; ret }; a = const 1; ret } => the definition of operand 0 does not dominate operation 4";

fn find_in_text<D: Dialect>(
    rt: &impl Abort,
    alloc: Global,
    ctx: &Context,
    root: Ptr<Operation>,
) -> String {
    assert!(rt; root.is_live(ctx));
    let violation = find_violation::<D>(alloc, root, ctx).expect(rt, "memory");
    let fit = is_fit::<D>(alloc, root, ctx).expect(rt, "memory");
    assert!(rt; fit == violation.is_none());
    match violation {
        Some(violation) => format!(in alloc; "{violation}").expect(rt, "memory"),
        None => format!(in alloc; "fit").expect(rt, "memory"),
    }
}

/// What the cases of a table are.
#[derive(Clone, Copy)]
enum Subject {
    Tree,
    Text,
    Trap,
}

fn answer(
    rt: &impl Abort,
    alloc: Global,
    ctx: &mut Context,
    subject: Subject,
    asked: &str,
) -> String {
    match subject {
        Subject::Tree => {
            let root = build(alloc, ctx, asked).expect(rt, "a tree");
            find_in_text::<Tiny>(rt, alloc, ctx, root)
        }
        Subject::Text => {
            let (place, text) = fields(asked).expect(rt, "a place");
            let whole = read(alloc, ctx, text).expect(rt, "a text");
            let root = operation_at(ctx, whole, place).expect(rt, "an operation");
            find_in_text::<Bench>(rt, alloc, ctx, root)
        }
        Subject::Trap => {
            let root = build(alloc, ctx, asked).expect(rt, "a tree");
            find_in_text::<Traps>(rt, alloc, ctx, root)
        }
    }
}

fn check(rt: &impl Abort, alloc: Global, subject: Subject, case: &str) {
    let CaseRow { name, asked, want } = row_of(case).expect(rt, "a case");
    let mut ctx = Context::new(alloc);
    let answer = answer(rt, alloc, &mut ctx, subject, asked);
    expect_text(rt, answer.as_str(), want, name);
}

fn check_table(rt: &impl Abort, alloc: Global, subject: Subject, table: &str) {
    for case in table.lines() {
        check(rt, alloc, subject, case);
    }
}

#[test]
fn trees_are_fit_or_not(rt: HostRuntime) {
    check_table(&rt, rt.alloc(), Subject::Tree, TREES);
}

#[test]
fn texts_are_fit_or_not(rt: HostRuntime) {
    check_table(&rt, rt.alloc(), Subject::Text, TEXTS);
}

#[test]
fn trees_of_loose_dialects_are_fit_or_not(rt: HostRuntime) {
    check_table(&rt, rt.alloc(), Subject::Trap, TRAPS);
}
