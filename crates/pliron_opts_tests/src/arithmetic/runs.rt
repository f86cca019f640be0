//! Runs of functions, worked by hand, before and after constant propagation and dead code elimination.
use super::texts::read;
use crate::expect::expect_sight;
use pliron_core::{AttrObj, Context, Operation, Ptr};
use pliron_dialect_arithmetic::{Arithmetic, ArithmeticKind};
use pliron_evaluator::evaluator::{Datum, Sight, evaluate};
use pliron_laws::is_well_linked;
use pliron_opt_dce::dce;
use pliron_opt_sccp::sccp;
use pliron_role_runs::RunByRoles;
use pliron_test_cases::cases::{all_known, row_of};
use std::alloc::Global;
use std::process::Abort;

// A name, inputs, a function, and the values that its run ends with.
static CASES: &str = "\
a product -- | function { b0(): a = lit 6; b = lit 7; p = mul a b; return p } => 42
a sum and its negative -- | function { b0(): a = lit 2; b = lit 3; s = add a b; n = neg s; return n } => -5
less, of a greater one -- 5 | function { b0(x): two = lit 2; p = mul x two; l = less p x; return l p } => 0 10
less, of a smaller one -- -3 | function { b0(x): two = lit 2; p = mul x two; l = less p x; return l p } => 1 -6
a jump -- | function { b0(): a = lit 4; jump b1(a); b1(p): return p } => 4
a branch on 0 -- 0 8 9 | function { b0(c, x, y): branch c t(x) f(y); t(p): return p; f(q): n = neg q; return n } \
    => -9
a branch on a number but 0 -- 7 8 9 | function { b0(c, x, y): branch c t(x) f(y); t(p): return p; f(q): n = neg q; \
    return n } => 8
a branch on a constant -- | function { b0(): z = lit 0; a = lit 8; b = lit 9; branch z t(a) f(b); t(p): return p; \
    f(q): return q } => 9
a loop that sums -- 4 | function { b0(n): z = lit 0; m = lit -1; jump b1(n, z); b1(i, s): t = add s i; j = add i \
    m; branch j b1(j, t) b2(t); b2(r): return r } => 10
more inputs than arguments -- 1 2 3 | function { b0(x): return x } => 1
fewer inputs than arguments -- | function { b0(x, y): s = add x y; return s } => 0
an if on a number but 0 -- 1 7 | function { b0(c, x): r = if c x { t(y): return y } { f(z): n = neg z; return n }; \
    return r } => 7
an if on 0 -- 0 7 | function { b0(c, x): r = if c x { t(y): return y } { f(z): n = neg z; return n }; return r } \
    => -7
a while that multiplies -- 5 | function { b0(n): one = lit 1; m = lit -1; z, f = while n one { w(i, a): p = mul a \
    i; j = add i m; return j j p }; return f } => 120
a while with one round -- 1 | function { b0(n): one = lit 1; m = lit -1; z, f = while n one { w(i, a): p = mul a \
    i; j = add i m; return j j p }; return f } => 1
a while with more values than arguments -- 3 | function { b0(n): k = lit 2; r = while n { w(i): z = lit 0; q = add \
    k k; return z q i }; return r } => 4";

// The numbers of a text as data.
fn data(rt: &impl Abort, alloc: Global, words: &str) -> Vec<Datum> {
    let mut data = Vec::new(alloc);
    for known in &all_known(alloc, words).expect(rt, "memory") {
        if let Some(AttrObj::Int(number)) = known {
            data.push(Datum::Number(*number)).expect(rt, "memory");
        }
    }
    data
}

/// A run.
#[derive(Clone, Copy)]
struct Run<'t> {
    name: &'t str,
    inputs: &'t str,
    text: &'t str,
    values: &'t str,
}

fn check_run(rt: &impl Abort, alloc: Global, ctx: &Context, root: Ptr<Operation>, run: &Run) {
    let world = Vec::new(alloc);
    let inputs = data(rt, alloc, run.inputs);
    let seen = evaluate::<RunByRoles<ArithmeticKind>>(alloc, ctx, root, inputs, world, 200).expect(
        rt, "memory",
    );
    let want = Sight::Ended(data(rt, alloc, run.values), Vec::new(alloc));
    expect_sight(rt, &seen, &want, run.name);
}

fn check_runs(rt: &impl Abort, alloc: Global, ctx: &mut Context, run: &Run) {
    let root = read(rt, alloc, ctx, run.text);
    check_run(rt, alloc, ctx, root, run);
    assert!(rt; root.is_live(ctx));
    assert!(rt; is_well_linked::<Arithmetic>(root, ctx));
    let _ = sccp::<Arithmetic>(alloc, root, ctx).expect(rt, "memory");
    assert!(rt; root.is_live(ctx));
    assert!(rt; is_well_linked::<Arithmetic>(root, ctx));
    let _ = dce::<Arithmetic>(alloc, root, ctx).expect(rt, "memory");
    check_run(rt, alloc, ctx, root, run);
}

fn check(rt: &impl Abort, alloc: Global, line: &str) {
    let row = row_of(line).expect(rt, "a case");
    let (inputs, text) = row.asked.split_once("| ").expect(rt, "inputs");
    let run = Run {
        name: row.name,
        inputs,
        text,
        values: row.want,
    };
    let mut ctx = Context::new(alloc);
    check_runs(rt, alloc, &mut ctx, &run);
}

#[test]
fn texts(rt: HostRuntime) {
    for line in CASES.lines() {
        check(&rt, rt.alloc(), line);
    }
}
