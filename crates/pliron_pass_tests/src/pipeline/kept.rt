//! What stays, over well-defined texts made at random, with no answers to be made beforehand: the runs of each
//! function before and after, compared by the evaluator, and each cached fact, compared with one that
//! is computed anew.
ghost use Rattle.pliron_core.specs.Tree.{IsLive};
ghost use Rattle.pliron_laws.specs.Linked.{IsWellLinked};
ghost use Rattle.pliron_dialect_bench.specs.BenchMoves.{bench};

use super::nest::{Deep, deep};
use super::texts::{KINDS, write_fact};
use crate::expect::expect_text;
use pliron_core::{Context, Operation, Ptr};
use pliron_dialect_bench::{Bench, BenchKind};
use pliron_evaluator::evaluator::Sight;
use pliron_laws::Dialect;
use pliron_pass::{
    AnalysisManager, BenchFactKind, BenchFacts, GuardedPass, NestedOpsPass, OpGuard, OpPass,
    Passes, Repeat,
};
use pliron_pass_pipeline::run_pipeline;
use pliron_test_cases::cases::read;
use pliron_test_cases::runs::sight_of_run;
use std::alloc::Global;
use std::process::Abort;

const ENOUGH: usize = 40;

// More operations than any text has.
const MANY: usize = 200;

// Each text is run under each of these. What follows `inside` is run on the functions directly inside, again
// and again: seven combinators, one in another.
static PASSES: &str = "inside [ sccp repeat:2 removing dce simplify-cfg ]
sccp
simplify-cfg
[ sccp simplify-cfg dce ]
nested func [ simplify-cfg dce ]
repeat:4 [ sccp dce nested simplify-cfg ]
[ dce nested repeat:3 sccp func dce ]
[ sccp nested fail:5 dce simplify-cfg ]";

static TEXTS: &str = "\
random 1 -- func { b0(): x3 = const 0; cbr x3 b2() b2(); b1(x1, x2): print x3; br b2(); b2(): box { b0(): box { \
    b0(): x6 = add x3 x3; cbr x3 b1() b1(); b1(): x7 = const -1; print x7; x8 = const 3; print x8; cbr x3 b1() \
    b1() }; x9 = mul x3 x3; cbr x9 b1(x9, x3) b1(x3, x9); b1(x4, x5): print x4; x10 = add x5 x5; x11 = div x4 x3; \
    x12 = const 1; cbr x5 b1(x3, x5) b1(x5, x10) }; box { b0(): print x3; x13 = const 0; ret x13 }; x14 = div x3 \
    x3; x15 = mul x14 x3; ret x15 }
random 2 -- mod { b0(): func { b0(): x1 = const 3; print x1; x2 = read; x3 = const 1; ret x2 }; func { b0(x1): x4 \
    = div x1 x1; x5 = const 1; scope x1 { b0(x6): sink x6; x7 = read; x8, x9 = pair; x10 = const 3; cbr x7 b1() \
    b1(); b1(): x11 = const -1; print x5; ret x10 }; x12 = add x5 x5; cbr x1 b1() b2(x12, x12); b1(): x13 = mul x1 \
    x5; cbr x12 b2(x4, x13) b2(x5, x12); b2(x2, x3): x14 = add x1 x4; ret } }
random 3 -- func { b0(x1): x5 = mul x1 x1; x6 = const 3; x7 = div x1 x1; br b1(x1); b1(x2): print x7; cbr x2 \
    b2(x6, x6) b1(x1); b2(x3, x4): x8 = const 2; cbr x6 b1(x4) b2(x7, x6) }
random 4 -- mod { b0(): func { b0(): x3 = const 2; x4 = const 0; x5 = read; x6 = div x3 x3; cbr x6 b1() b2(x3, \
    x3); b1(): sink x3 x6; x7 = const -1; x8 = const 0; ret x4; b2(x1, x2): print x2; x9, x10 = pair; x11 = const \
    0; cbr x11 b1() b1() }; func { b0(x1, x2): x3 = div x2 x2; box { b0(): x5 = mul x1 x2; x6, x7 = pair; print \
    x7; cbr x2 b1(x2) b1(x7); b1(x4): x8, x9 = pair; x10 = const 3; x11 = read; x12 = const -1; ret x3 }; scope x2 \
    { b0(x13): x14 = read; ret x3 }; ret } }
random 5 -- mod { b0(): func { b0(): x2, x3 = pair; cbr x3 b2(x2) b2(x3); b1(): print x3; x4 = div x2 x3; ret; \
    b2(x1): sink x2 x2; x5 = const 1; x6 = const 3; ret x1 }; func { b0(x1): x4 = read; x5 = add x1 x4; cbr x1 \
    b1(x4, x5) b1(x1, x5); b1(x2, x3): x6, x7 = pair; ret x4; b2(): x8 = add x4 x1; x9, x10 = pair; sink; box { \
    b0(): sink; print x8; x13 = mul x4 x10; cbr x10 b1(x5, x8) b1(x5, x9); b1(x11, x12): x14, x15 = pair; x16 = \
    div x4 x15; cbr x8 b1(x16, x13) b1(x11, x12) }; ret x9 } }
random 6 -- func { b0(): x1 = const 1; x2 = add x1 x1; x3 = div x1 x2; x4 = add x2 x3; ret x3 }
random 7 -- mod { b0(): func { b0(x1): x2 = div x1 x1; x3 = add x2 x2; ret x3 }; func { b0(x1): x2 = div x1 x1; x3 \
    = mul x2 x2; x4, x5 = pair; print x4; br b2(); b1(): box { b0(): sink x2; print x1; ret x4 }; x6, x7 = pair; \
    ret x3; b2(): x8, x9 = pair; x10 = const -1; br b2() } }
random 8 -- func { b0(): sink; x2 = const 2; x3 = const 0; cbr x3 b2() b2(); b1(x1): x4 = add x3 x3; x5, x6 = \
    pair; box { b0(): x9 = read; x10 = read; cbr x6 b1(x3, x6) b1(x4, x2); b1(x7, x8): print x10; br b1(x2, x9) }; \
    cbr x1 b2() b1(x1); b2(): x11 = const 3; scope x11 { b0(x12): x13, x14 = pair; x15 = const -1; box { b0(): x16 \
    = mul x14 x14; ret x14 }; x17 = const -1; ret x12 }; ret x11 }
random 9 -- func { b0(x1): x3 = mul x1 x1; br b1(x1); b1(x2): sink x1; ret x1 }
random 10 -- func { b0(): x1 = const 0; x2 = add x1 x1; cbr x2 b1() b2(); b1(): x3 = div x2 x2; x4 = add x3 x2; br \
    b1(); b2(): print x2; scope x1 { b0(x5): print x5; ret x5 }; x6, x7 = pair; ret x1 }
random 11 -- mod { b0(): func { b0(x1): box { b0(): x2 = mul x1 x1; x3 = const 3; print x3; box { b0(): x4 = read; \
    ret }; cbr x3 b1() b1(); b1(): x5 = read; x6 = mul x3 x5; box { b0(): x7 = mul x2 x2; x8 = mul x3 x1; x9 = add \
    x2 x3; x10 = mul x3 x5; cbr x7 b1() b1(); b1(): x11 = read; x12 = add x3 x10; br b1() }; x13 = const -1; cbr \
    x3 b1() b1() }; sink; x14 = const 1; br b1(); b1(): x15 = add x14 x14; x16 = div x14 x15; cbr x14 b1() b1() }; \
    func { b0(x1): x2 = const 2; print x1; ret } }
random 12 -- func { b0(x1): scope x1 { b0(x2): x4 = const 2; x5 = const -1; x6 = div x5 x2; x7 = const 0; cbr x4 \
    b1(x2) b1(x6); b1(x3): x8, x9 = pair; x10 = add x5 x9; x11 = const 1; sink x8 x2; ret x10 }; x12, x13 = pair; \
    scope x13 { b0(x14): x15 = read; x16 = read; print x16; br b1(); b1(): x17, x18 = pair; x19 = add x13 x14; x20 \
    = add x13 x16; cbr x13 b1() b1() }; x21 = const 2; ret x13 }";

// The operation and all that are inside it, in the order of the text.
fn operations(
    rt: &impl Abort,
    alloc: Global,
    root: Ptr<Operation>,
    ctx: &Context,
) -> Vec<Ptr<Operation>>
    requires { IsLive ctx.now.tree root }
{
    let mut found = Vec::new(alloc);
    found.push(root).expect(rt, "memory");
    let mut at = root.first_inside(ctx);
    for _ in 0..MANY {
        let Some(op) = at else {
            return found;
        };
        assert!(rt; op.is_live(ctx));
        assert!(rt; op.is_inside(root, ctx));
        found.push(op).expect(rt, "memory");
        at = op.next_in_preorder(root, ctx);
    }
    found
}

// Computes the facts of each of these that is live.
fn compute_all(
    rt: &impl Abort,
    ops: &[Ptr<Operation>],
    analyses: &mut AnalysisManager<BenchFacts>,
    ctx: &Context,
) {
    for op in ops {
        if op.is_live(ctx) {
            analyses
                .compute_analysis(BenchFactKind::Total, *op, ctx)
                .expect(rt, "memory");
        }
    }
}

// What is seen of the functions among these.
fn sights(rt: &impl Abort, alloc: Global, ops: &[Ptr<Operation>], ctx: &Context) -> Vec<Sight> {
    let mut sights = Vec::new(alloc);
    for op in ops {
        if op.is_live(ctx) && Bench::is_kind(*op, ctx, BenchKind::Func) {
            let sight = sight_of_run(alloc, ctx, *op, &[2, 0], &[1, 0, 3, 0, 0, 5], ENOUGH);
            let sight = sight.expect(rt, "memory");
            sights.push(sight).expect(rt, "memory");
        }
    }
    sights
}

// A run that was cut short may come further once it has fewer branches to take.
fn compare_sights(rt: &impl Abort, before: &[Sight], after: &[Sight], name: &str) {
    assert!(rt; before.len() == after.len(), "{name}");
    for (old, new) in before.iter().zip(after.iter()) {
        match old {
            Sight::Reached(_) => {}
            _ => assert!(rt; old == new, "{name}"),
        }
    }
}

// What the fact says.
fn fact_text(rt: &impl Abort, alloc: Global, fact: &BenchFacts) -> String {
    let mut text = String::new(alloc);
    write_fact(rt, &mut text, fact);
    text
}

// The facts say the same.
fn compare_fact(rt: &impl Abort, alloc: Global, fact: &BenchFacts, fresh: &BenchFacts) {
    let said = fact_text(rt, alloc, fact);
    let want = fact_text(rt, alloc, fresh);
    expect_text(rt, said.as_str(), want.as_str(), "a fact");
}

// How many facts of the operation are cached: each is as in the second cache.
fn compare_facts(
    rt: &impl Abort,
    alloc: Global,
    analyses: &AnalysisManager<BenchFacts>,
    anew: &AnalysisManager<BenchFacts>,
    op: Ptr<Operation>,
) -> usize {
    let mut count: usize = 0;
    for kind in KINDS {
        if let Some(fact) = analyses.try_get_analysis(kind, op) {
            let fresh = anew.try_get_analysis(kind, op).expect(rt, "a fact");
            compare_fact(rt, alloc, fact, fresh);
            count = count.saturating_add(1);
        }
    }
    count
}

// How many facts of these are cached: each that is live has those that are computed anew.
fn fresh_facts(
    rt: &impl Abort,
    alloc: Global,
    ops: &[Ptr<Operation>],
    analyses: &AnalysisManager<BenchFacts>,
    ctx: &Context,
) -> usize {
    let mut anew = AnalysisManager::<BenchFacts>::new(alloc);
    compute_all(rt, ops, &mut anew, ctx);
    let mut count: usize = 0;
    for op in ops {
        if op.is_live(ctx) {
            let facts = compare_facts(rt, alloc, analyses, &anew, *op);
            count = count.saturating_add(facts);
        }
    }
    count
}

/// Lists of passes on the functions directly inside, again and again.
type Inside = Repeat<NestedOpsPass<OpPass<Bench, Passes<Deep>>>>;

fn inside(rt: &impl Abort, alloc: Global, words: &str) -> Inside {
    let mut passes = Passes::new(alloc);
    let pass = deep(rt, alloc, words);
    assert!(rt; passes.add_pass(pass).is_ok());
    let guard = OpGuard::new(BenchKind::Func);
    Repeat::new(3, NestedOpsPass::new(GuardedPass::new(guard, passes)))
}

// Runs the passes of these words. Answers whether there was no error.
fn run_words(
    rt: &impl Abort,
    alloc: Global,
    words: &str,
    op: Ptr<Operation>,
    ctx: &mut Context,
    analyses: &mut AnalysisManager<BenchFacts>,
) -> bool
    requires live { IsLive ctx.old.tree op }
    requires linked { IsWellLinked bench ctx.old.tree op }
{
    match words.strip_prefix("inside ") {
        Some(words) => {
            let mut pass = inside(rt, alloc, words);
            run_pipeline(&mut pass, alloc, op, ctx, analyses).is_ok()
        }
        None => {
            let mut pass = deep(rt, alloc, words);
            run_pipeline(&mut pass, alloc, op, ctx, analyses).is_ok()
        }
    }
}

// Runs the passes of these words on the text of the case. Answers how many facts were compared.
fn kept_in(
    rt: &impl Abort,
    alloc: Global,
    words: &str,
    case: &str,
    ctx: &mut Context,
    analyses: &mut AnalysisManager<BenchFacts>,
) -> usize {
    let (name, text) = case.split_once(" -- ").expect(rt, "a name");
    let root = read(alloc, ctx, text).expect(rt, "a text");
    let ops = operations(rt, alloc, root, ctx);
    compute_all(rt, &ops, analyses, ctx);
    let before = sights(rt, alloc, &ops, ctx);
    let went_well = run_words(rt, alloc, words, root, ctx, analyses);
    let after = sights(rt, alloc, &ops, ctx);
    compare_sights(rt, &before, &after, name);
    assert!(rt; went_well | analyses.cached_kind(0).is_none(), "{name}");
    fresh_facts(rt, alloc, &ops, analyses, ctx)
}

// The same in a context of its own.
fn count_kept(rt: &impl Abort, alloc: Global, words: &str, case: &str) -> usize {
    let mut ctx = Context::new(alloc);
    let mut analyses = AnalysisManager::<BenchFacts>::new(alloc);
    kept_in(rt, alloc, words, case, &mut ctx, &mut analyses)
}

#[test]
fn runs_and_facts_are_kept(rt: HostRuntime) {
    let mut count: usize = 0;
    for words in PASSES.lines() {
        for case in TEXTS.lines() {
            count = count.saturating_add(count_kept(&rt, rt.alloc(), words, case));
        }
    }
    assert!(rt; count > 200, "{count} facts");
}
