//! The ready-made analyses, on worked texts.
ghost use Rattle.pliron_core.specs.Tree.{IsLive};

use super::expect::expect_text;
use super::lines::read;
use pliron_core::{Context, IRStatus, Operation, Ptr};
use pliron_pass::{AnalysisManager, BenchFactKind, BenchFacts, PassResult};
use pliron_test_cases::cases::{CaseRow, row_of};
use std::alloc::Global;
use std::process::Abort;

static LOOP: &str =
    "func { b0(): z = const 0; br b1(z); b1(i): r = read; cbr r b1(i) b2(); b2(): ret i }";

// A name and a text, and its edges by the handles of blocks, which count up in the order of the text, its size and its
// total.
static CASES: &str = "\
a loop -- func { b0(): z = const 0; br b1(z); b1(i): r = read; cbr r b1(i) b2(); b2(): ret i } => edges 0-1 1-1 \
    1-2, size 5, total 8
a return -- func { b0(): ret } => edges, size 1, total 1
an empty module -- mod {} => edges, size 0, total 0
both edges to one block -- func { b0(x): cbr x b1(x) b1(x); b1(p): ret } => edges 0-1 0-1, size 2, total 4
a box -- func { b0(): k = const 4; box { b0(): sink k }; ret } => edges, size 4, total 4
a box before a jump -- func { b0(): box { b0(): }; br b1(); b1(): ret } => edges 0-2, size 3, total 4
functions in a module -- mod { b0(): func { b0(): br b1(); b1(): ret }; func { b0(): ret; b1(): br b0() } } => \
    edges 1-2 4-3, size 6, total 8";

// Writes what the fact says.
fn write_fact(rt: &impl Abort, text: &mut String, fact: &BenchFacts) {
    match fact {
        BenchFacts::Edges(pairs) => {
            text.push_str("edges").expect(rt, "memory");
            for (from, to) in pairs {
                write!(text, " {}-{}", from.key(), to.key()).expect(rt, "memory");
            }
        }
        BenchFacts::Size(count) => write!(text, "size {count}").expect(rt, "memory"),
        BenchFacts::Total(count) => write!(text, "total {count}").expect(rt, "memory"),
    }
}

// Writes the cached facts of the operation, in their order.
fn write_cached(
    rt: &impl Abort,
    text: &mut String,
    analyses: &AnalysisManager<BenchFacts>,
    op: Ptr<Operation>,
) {
    for i in 0..4 {
        let Some(kind) = analyses.cached_kind(i) else {
            return;
        };
        if let Some(fact) = analyses.try_get_analysis(kind, op) {
            if i != 0 {
                text.push_str(", ").expect(rt, "memory");
            }
            write_fact(rt, text, fact);
        }
    }
}

fn check_fact(rt: &impl Abort, alloc: Global, fact: &BenchFacts, want: &str) {
    let mut text = String::new(alloc);
    write_fact(rt, &mut text, fact);
    expect_text(rt, text.as_str(), want, "a fact");
}

fn check_cached(
    rt: &impl Abort,
    alloc: Global,
    analyses: &AnalysisManager<BenchFacts>,
    op: Ptr<Operation>,
    want: &str,
    name: &str,
) {
    let mut text = String::new(alloc);
    write_cached(rt, &mut text, analyses, op);
    expect_text(rt, text.as_str(), want, name);
}

fn facts_in(
    rt: &impl Abort,
    alloc: Global,
    case: &str,
    ctx: &mut Context,
    analyses: &mut AnalysisManager<BenchFacts>,
) {
    let CaseRow { name, asked, want } = row_of(case).expect(rt, "a case");
    let root = read(rt, alloc, ctx, asked);
    analyses
        .compute_analysis(BenchFactKind::Total, root, ctx)
        .expect(rt, "memory");
    check_cached(rt, alloc, analyses, root, want, name);
}

fn check(rt: &impl Abort, alloc: Global, case: &str) {
    let mut ctx = Context::new(alloc);
    let mut analyses = AnalysisManager::<BenchFacts>::new(alloc);
    facts_in(rt, alloc, case, &mut ctx, &mut analyses);
}

#[test]
fn edges_sizes_and_totals(rt: HostRuntime) {
    for case in CASES.lines() {
        check(&rt, rt.alloc(), case);
    }
}

// What the caller writes over the total is what remains.
fn write_total(
    rt: &impl Abort,
    alloc: Global,
    ctx: &Context,
    op: Ptr<Operation>,
    analyses: &mut AnalysisManager<BenchFacts>,
)
    requires { IsLive ctx.now.tree op }
{
    let total = analyses
        .get_analysis_mut(BenchFactKind::Total, op, ctx)
        .expect(rt, "memory");
    check_fact(rt, alloc, total, "total 8");
    *total = BenchFacts::Total(9);
}

// After a change that keeps edges a total is computed anew from them.
fn keep(
    rt: &impl Abort,
    alloc: Global,
    ctx: &Context,
    op: Ptr<Operation>,
    analyses: &mut AnalysisManager<BenchFacts>,
)
    requires { IsLive ctx.now.tree op }
{
    let total = analyses
        .get_analysis(BenchFactKind::Total, op, ctx)
        .expect(rt, "memory");
    check_fact(rt, alloc, total, "total 8");
    let answer = analyses
        .keep_edge_kinds(IRStatus::Changed)
        .expect(rt, "memory");
    analyses.retain_preserved(&answer);
    check_cached(rt, alloc, analyses, op, "edges 0-1 1-1 1-2", "what is kept");
    analyses
        .compute_analysis(BenchFactKind::Total, op, ctx)
        .expect(rt, "memory");
}

fn kept_in(
    rt: &impl Abort,
    alloc: Global,
    ctx: &mut Context,
    analyses: &mut AnalysisManager<BenchFacts>,
) {
    let root = read(rt, alloc, ctx, LOOP);
    keep(rt, alloc, ctx, root, analyses);
    write_total(rt, alloc, ctx, root, analyses);
    let want = "edges 0-1 1-1 1-2, size 5, total 9";
    check_cached(rt, alloc, analyses, root, want, "what is written");
    analyses.retain_preserved(&PassResult::new(alloc));
    check_cached(rt, alloc, analyses, root, want, "what is preserved");
}

#[test]
fn edges_are_kept(rt: HostRuntime) {
    let alloc = rt.alloc();
    let mut ctx = Context::new(alloc);
    let mut analyses = AnalysisManager::<BenchFacts>::new(alloc);
    kept_in(&rt, alloc, &mut ctx, &mut analyses);
}
