//! Counted loops, effects and a memo in a dialect by roles, before and after constant propagation, and their runs,
//! worked by hand.
use crate::expect::{expect_fault, expect_sight, expect_text};
use crate::looped::Looped;
use crate::looped_kind::LoopedKind;
use pliron_core::{Context, Operation, Ptr};
use pliron_evaluator::evaluator::{Datum, Sight, evaluate};
use pliron_laws::is_well_linked;
use pliron_opt_sccp::sccp;
use pliron_role_runs::RunByRoles;
use pliron_test_cases::cases;
use pliron_text::{print_operation, read_operation};
use std::alloc::Global;
use std::process::Abort;

// A name, an input, the world's answers, a function, the value that its runs end with, the operands of its effects, the
// latest first, and the function after propagation.
static CASES: &str = "\
a constant operand falls into the region -- 4 | function { b0(n): a = lit 7; r = repeat n a { t(x, s): y = add x x; \
    z = add y s; return z }; return r } | 56 => function { b0(v0): v1 = lit 7; v2 = repeat v0 v1 { b0(v3, v4): v5 = \
    lit 7; v6 = lit 14; v7 = add v5 v5; v8 = add v6 v4; return v8 }; return v2 }
the second of two operands -- 3 | function { b0(n): a = lit 7; r = repeat n n a { t(x, y, s): q = add x y; z = add q \
    s; return z }; return r } | 30 => function { b0(v0): v1 = lit 7; v2 = repeat v0 v0 v1 { b0(v3, v4, v5): v6 = lit \
    7; v7 = add v3 v6; v8 = add v7 v5; return v8 }; return v2 }
what the last visit gave -- 2 | function { b0(n): a = lit 7; r = repeat n { t(s): y = add s a; return y }; return r \
    } | 14 => function { b0(v0): v1 = lit 7; v2 = repeat v0 { b0(v3): v4 = add v3 v1; return v4 }; return v2 }
no visit -- 0 | function { b0(n): a = lit 7; r = repeat n a { t(x): return x }; return r } | 0 => function { b0(v0): \
    v1 = lit 7; v2 = repeat v0 v1 { b0(v3): v4 = lit 7; return v4 }; return v2 }
two effects and their answers -- 4 ? 9 8 | function { b0(n): a = lit 7; r = ask n a; q = ask r; return q } | 8 ! 9 ! 4 \
    7 => function { b0(v0): v1 = lit 7; v2 = ask v0 v1; v3 = ask v2; return v3 }
an effect with two results -- 1 ? 5 | function { b0(n): r, q = ask; s = add r q; return s } | 5 ! => function { \
    b0(v0): v1, v2 = ask; v3 = add v1 v2; return v3 }
a region two times -- 3 | function { b0(n): r = twice n { t(x): y = add x x; return y }; return r } | 12 => function { \
    b0(v0): v1 = twice v0 { b0(v2): v3 = add v2 v2; return v3 }; return v1 }";

// What `ask` is named in its effects.
const ASK: i128 = 6;

// The number that the word is.
fn number(rt: &impl Abort, word: &str) -> Datum {
    Datum::Number(cases::number(word).expect(rt, "a number") as i128)
}

// The numbers that the words are.
fn numbers(rt: &impl Abort, alloc: Global, words: &str) -> Vec<Datum> {
    let mut data = Vec::new(alloc);
    for word in words.split(' ') {
        if !word.is_empty() {
            data.push(number(rt, word)).expect(rt, "memory");
        }
    }
    data
}

// The effect of an `ask` with these operands.
fn effect(rt: &impl Abort, alloc: Global, words: &str) -> Datum {
    let mut chain = Datum::Empty;
    for word in words.rsplit(' ') {
        if !word.is_empty() {
            chain = Datum::join(alloc, number(rt, word), chain).expect(rt, "memory");
        }
    }
    Datum::join(alloc, Datum::Number(ASK), chain).expect(rt, "memory")
}

// What is seen of a run: the value, and the effects behind it.
fn sight(rt: &impl Abort, alloc: Global, text: &str) -> Sight {
    let mut effects = Vec::new(alloc);
    let mut parts = text.split('!');
    let value = numbers(rt, alloc, parts.next().expect(rt, "a value"));
    for part in parts {
        effects.push(effect(rt, alloc, part)).expect(rt, "memory");
    }
    Sight::Ended(value, effects)
}

/// A case.
#[derive(Clone, Copy)]
struct Case<'t> {
    name: &'t str,
    input: &'t str,
    before: &'t str,
    seen: &'t str,
    after: &'t str,
}

fn check_run(rt: &impl Abort, alloc: Global, ctx: &Context, root: Ptr<Operation>, case: &Case) {
    let (input, world) = case.input.split_once("?").unwrap_or((case.input, ""));
    let world = numbers(rt, alloc, world);
    let input = numbers(rt, alloc, input);
    let seen = evaluate::<RunByRoles<LoopedKind>>(alloc, ctx, root, input, world, 200).expect(
        rt, "memory",
    );
    let want = sight(rt, alloc, case.seen);
    expect_sight(rt, &seen, &want, case.name);
}

fn check_in(rt: &impl Abort, alloc: Global, ctx: &mut Context, case: &Case) {
    let read = read_operation::<LoopedKind>(alloc, case.before.as_bytes(), ctx).expect(
        rt, "memory",
    );
    let root = read.expect(rt, "readable");
    check_run(rt, alloc, ctx, root, case);
    assert!(rt; root.is_live(ctx));
    assert!(rt; is_well_linked::<Looped>(root, ctx));
    let _ = sccp::<Looped>(alloc, root, ctx).expect(rt, "memory");
    check_run(rt, alloc, ctx, root, case);
    assert!(rt; root.is_live(ctx));
    let printed = print_operation::<LoopedKind>(alloc, root, ctx).expect(rt, "memory");
    expect_text(rt, printed.as_str(), case.after, case.name);
}

// The parts of a line.
fn case_of<'t>(rt: &impl Abort, line: &'t str) -> Case<'t> {
    let (name, row) = line.split_once(" -- ").expect(rt, "a name");
    let (given, after) = row.split_once(" => ").expect(rt, "a case");
    let (input, rest) = given.split_once(" | ").expect(rt, "an input");
    let (before, seen) = rest.split_once(" | ").expect(rt, "what is seen");
    Case {
        name,
        input,
        before,
        seen,
        after,
    }
}

fn check(rt: &impl Abort, alloc: Global, line: &str) {
    let mut ctx = Context::new(alloc);
    check_in(rt, alloc, &mut ctx, &case_of(rt, line));
}

#[test]
fn texts(rt: HostRuntime) {
    for line in CASES.lines() {
        check(&rt, rt.alloc(), line);
    }
}

// Texts outside the notation, and for each after how many bytes and in how many it leaves that, and what was expected
// there.
static FAULTS: &str = "\
function { b0(n): r = repeat n { t(s): return s }; return q } => 58 1 the name of a value that the text defines
function { b0(n): twice n { t(n): return n }; return n } => 30 1 a value's name that the text doesn't define before
function { b0(n): r = repeat n { return n }; return r } => 33 6 a block, or `}`
function { b0(n): r = add n; return r } => 27 1 the name of a value
function { b0(): r = lit 99999999999999999999; return r } => 25 20 a number from -2^63 to 2^63 - 1, without leading \
    zeros
function { b0(n): r = repeat n { t(s): return s } { }; return r } => 22 6 an operation that the dialect admits, \
    with so many operands, results and regions
function { b0(n): r = ask n { }; return r } => 22 3 an operation that the dialect admits, with so many operands, \
    results and regions";

#[test]
fn places_of_faults(rt: HostRuntime) {
    for row in FAULTS.lines() {
        let (text, wanted) = row.split_once(" => ").expect(&rt, "a case");
        expect_fault::<LoopedKind>(&rt, rt.alloc(), text, wanted);
    }
}
