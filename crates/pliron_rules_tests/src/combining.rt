//! Texts, and what `combine` leaves of them by the rules of `Bench`.
use pliron_bench_rules::BenchRules;
use pliron_core::{Context, Operation, Ptr};
use pliron_dialect_bench::Bench;
use pliron_laws::{OptError, is_well_linked};
use pliron_opt_combine::{CombineOutcome, Ending, combine};
use pliron_pass_pipeline::max_rewrites;
use pliron_test_cases::cases::{Case, case_of, line, read};
use pliron_test_cases::runs::{are_kept, sights};
use std::alloc::Global;
use std::process::Abort;

/// Before each text is a name, how many rewrites there are, and whether the limit of 100 was reached. They were worked
/// out by hand: what a term makes is just before the operation.
static ROWS: &str = "\
two constants become one -- 1F func { b0(x): c = const 3; v = add x c; d = const 4; w = add v d; ret w } => func { b0(v0): \
    v1 = const 3; v2 = add v0 v1; v3 = const 4; v4 = const 7; v5 = add v0 v4; v6 = add v2 v3; ret v5 }
the inner sum has another user -- 1F func { b0(x): c = const 3; v = add x c; d = const 4; w = add v d; z = mul v w; ret z } \
    => func { b0(v0): v1 = const 3; v2 = add v0 v1; v3 = const 4; v4 = const 7; v5 = add v0 v4; v6 = add v2 v3; v7 = mul v2 \
    v5; ret v7 }
a chain, in order -- 2F func { b0(x): o = const 1; a = add x o; b = add a o; c = add b o; ret c } => func { b0(v0): v1 = \
    const 1; v2 = add v0 v1; v3 = const 2; v4 = add v0 v3; v5 = add v2 v1; v6 = const 3; v7 = add v0 v6; v8 = add v4 v1; \
    ret v7 }
a chain of five -- 4F func { b0(x): o = const 1; a = add x o; b = add a o; c = add b o; d = add c o; e = add d o; ret e } => func { \
    b0(v0): v1 = const 1; v2 = add v0 v1; v3 = const 2; v4 = add v0 v3; v5 = add v2 v1; v6 = const 3; v7 = add v0 v6; v8 = add \
    v4 v1; v9 = const 4; v10 = add v0 v9; v11 = add v7 v1; v12 = const 5; v13 = add v0 v12; v14 = add v10 v1; ret v13 }
numbers that make zero -- 1F func { b0(x): o = const 1; m = const -1; a = add x o; b = add a m; ret b } => func { b0(v0): v1 = \
    const 1; v2 = const -1; v3 = add v0 v1; v4 = const 0; v5 = add v0 v4; v6 = add v3 v2; ret v5 }
an answer of the world is looked through no further -- 0F func { b0(): z = const 0; r = read; a = add r z; ret a } => func { \
    b0(): v0 = const 0; v1 = read; v2 = add v1 v0; ret v2 }
one rule after the other, at a user -- 2F func { b0(x): o = const 1; a = add x o; t = const 2; b = add a t; c = add b b; ret c } \
    => func { b0(v0): v1 = const 1; v2 = add v0 v1; v3 = const 2; v4 = const 3; v5 = add v0 v4; v6 = add v2 v3; v7 = const 2; \
    v8 = mul v5 v7; v9 = add v5 v5; ret v8 }
a value by itself -- 1F func { b0(x): a = add x x; ret a } => func { b0(v0): v1 = const 2; v2 = mul v0 v1; v3 = add v0 v0; \
    ret v2 }
a sum by itself -- 1F func { b0(x): o = const 1; a = add x o; b = add a a; ret b } => func { b0(v0): v1 = const 1; v2 = add \
    v0 v1; v3 = const 2; v4 = mul v2 v3; v5 = add v2 v2; ret v4 }
a sum that wraps -- 1F func { b0(x): c = const 9223372036854775807; a = add x c; o = const 1; b = add a o; ret b } => func { \
    b0(v0): v1 = const 9223372036854775807; v2 = add v0 v1; v3 = const 1; v4 = const -9223372036854775808; v5 = add v0 v4; \
    v6 = add v2 v3; ret v5 }
round a loop, where the leaf is bound anew -- 1F func { b0(x): br b1(x); b1(i): o = const 1; v = add i o; w = add v o; r = \
    read; cbr r b1(w) b2(); b2(): ret } => func { b0(v0): br b1(v0); b1(v1): v2 = const 1; v3 = add v1 v2; v4 = const 2; v5 \
    = add v1 v4; v6 = add v3 v2; v7 = read; cbr v7 b1(v5) b2(); b2(): ret }
an argument is looked through no further -- 0F func { b0(x): o = const 1; v = add x o; br b1(v); b1(i): w = add i o; ret w } \
    => func { b0(v0): v1 = const 1; v2 = add v0 v1; br b1(v2); b1(v3): v4 = add v3 v1; ret v4 }
the inner sum is in a region around -- 1F func { b0(x): o = const 1; v = add x o; scope { b0(): w = add v o; print w; ret }; \
    ret } => func { b0(v0): v1 = const 1; v2 = add v0 v1; scope { b0(): v3 = const 2; v4 = add v0 v3; v5 = add v2 v1; print \
    v4; ret }; ret }
the constant is on the left -- 0F func { b0(x): o = const 1; v = add o x; w = add v o; ret w } => func { b0(v0): v1 = const 1; \
    v2 = add v1 v0; v3 = add v2 v1; ret v3 }
a quotient has side effects -- 0F func { b0(x): o = const 1; v = div x o; w = add v o; ret w } => func { b0(v0): v1 = const 1; \
    v2 = div v0 v1; v3 = add v2 v1; ret v3 }
a product is no sum -- 0F func { b0(x): o = const 1; v = mul x o; w = add v o; ret w } => func { b0(v0): v1 = const 1; v2 = mul \
    v0 v1; v3 = add v2 v1; ret v3 }
a result without uses -- 0F func { b0(x): a = add x x; ret x } => func { b0(v0): v1 = add v0 v0; ret v0 }
not reached -- 0F func { b0(x): ret x; b1(): o = const 1; v = add w o; w = add v o; ret w } => func { b0(v0): ret v0; b1(): v1 \
    = const 1; v2 = add v3 v1; v3 = add v2 v1; ret v3 }
a module without dominance -- 1F mod { b0(): func { b0(x): a = add x x; ret a } } => mod { b0(): func { b0(v0): v1 = const 2; \
    v2 = mul v0 v1; v3 = add v0 v0; ret v2 } }
uses before definitions, as blocks may be -- 1F func { b0(x): br b2(); b1(): b = add a o; ret b; b2(): o = const 1; a = add x \
    o; br b1() } => func { b0(v0): br b2(); b1(): v1 = const 2; v2 = add v0 v1; v3 = add v5 v4; ret v2; b2(): v4 = const 1; \
    v5 = add v0 v4; br b1() }";

/// The same, where one rewrite is allowed.
static LIMITED: &str = "\
a chain -- 1L func { b0(x): o = const 1; a = add x o; b = add a o; c = add b o; ret c } => func { b0(v0): v1 = const 1; v2 = \
    add v0 v1; v3 = const 2; v4 = add v0 v3; v5 = add v2 v1; v6 = add v4 v1; ret v6 }
nothing to do -- 0F func { b0(x): ret x } => func { b0(v0): ret v0 }";

/// The same, where no rewrite is allowed.
static FORBIDDEN: &str = "\
a value by itself -- 0L func { b0(x): a = add x x; ret a } => func { b0(v0): v1 = add v0 v0; ret v1 }";

/// A sum that is made of itself: rules apply to it for ever, so a run of the pass ends where sixteen rewrites were made for
/// each of the three operations inside.
const ENDLESS: &str = "func { b0(): c = const 1; v = add v c; ret v }";

// How the outcome is written, as in the tables.
fn word(alloc: Global, outcome: CombineOutcome) -> Result<String, OptError> {
    let letter = match outcome.ending {
        Ending::Finished => 'F',
        Ending::LimitReached => 'L',
    };
    let count = outcome.count;
    Ok(format!(in alloc; "{count}{letter}")?)
}

fn run(
    rt: &impl Abort,
    alloc: Global,
    ctx: &mut Context,
    root: Ptr<Operation>,
    limit: usize,
) -> CombineOutcome {
    assert!(rt; root.is_live(ctx));
    assert!(rt; is_well_linked::<Bench>(root, ctx));
    combine::<Bench, BenchRules>(alloc, root, limit, ctx).expect(rt, "memory")
}

fn check_in(rt: &impl Abort, alloc: Global, ctx: &mut Context, limit: usize, case: &Case) {
    let name = case.name;
    let root = read(alloc, ctx, case.text).expect(rt, "a readable text");
    let outcome = run(rt, alloc, ctx, root, limit);
    let answer = word(alloc, outcome).expect(rt, "memory");
    assert_eq!(rt; answer.as_str(), case.answer, "{name}");
    let left = line(alloc, ctx, root).expect(rt, "the whole");
    assert_eq!(rt; left.as_str(), case.after, "{name}");
}

// What is left of each text, and what is answered, is as its case says.
fn check_all(rt: &impl Abort, alloc: Global, limit: usize, cases: &str) {
    for row in cases.lines() {
        let case = case_of(row).expect(rt, "a case");
        let mut ctx = Context::new(alloc);
        check_in(rt, alloc, &mut ctx, limit, &case);
    }
}

#[test]
fn rows(rt: HostRuntime) {
    check_all(&rt, rt.alloc(), 100, ROWS)
}

#[test]
fn a_limit(rt: HostRuntime) {
    check_all(&rt, rt.alloc(), 1, LIMITED)
}

#[test]
fn no_rewrite(rt: HostRuntime) {
    check_all(&rt, rt.alloc(), 0, FORBIDDEN)
}

fn end_in(rt: &impl Abort, alloc: Global, ctx: &mut Context) {
    let root = read(alloc, ctx, ENDLESS).expect(rt, "a readable text");
    assert!(rt; root.is_live(ctx));
    let limit = max_rewrites(root, ctx);
    assert_eq!(rt; limit, 48);
    let outcome = run(rt, alloc, ctx, root, limit);
    let answer = word(alloc, outcome).expect(rt, "memory");
    assert_eq!(rt; answer.as_str(), "48L");
}

#[test]
fn a_sum_of_itself_ends(rt: HostRuntime) {
    let alloc = rt.alloc();
    let mut ctx = Context::new(alloc);
    end_in(&rt, alloc, &mut ctx)
}

fn compare_in(rt: &impl Abort, alloc: Global, ctx: &mut Context, case: &Case) {
    let name = case.name;
    let root = read(alloc, ctx, case.text).expect(rt, "a readable text");
    let before = sights(alloc, ctx, root, 100).expect(rt, "memory");
    run(rt, alloc, ctx, root, 100);
    let after = sights(alloc, ctx, root, 500).expect(rt, "memory");
    assert!(rt; are_kept(&before, &after), "{name}");
}

#[test]
fn runs_are_kept(rt: HostRuntime) {
    for row in ROWS.lines() {
        let case = case_of(row).expect(&rt, "a case");
        let mut ctx = Context::new(rt.alloc());
        compare_in(&rt, rt.alloc(), &mut ctx, &case);
    }
}
