//! The cache, asked for analyses.
use super::expect::expect_text;
use super::facts::Fact;
use super::lines::read;
use pliron_core::{Context, IRStatus, Operation, Ptr};
use pliron_pass::{AnalysisManager, PassResult};
use std::alloc::Global;
use std::process::Abort;

/// The kinds that are cached, in their order, a blank before each.
pub fn kinds(rt: &impl Abort, alloc: Global, analyses: &AnalysisManager<Fact>) -> String {
    let mut text = String::new(alloc);
    for i in 0..8 {
        match analyses.cached_kind(i) {
            Some(kind) => write!(text, " {kind}").expect(rt, "memory"),
            None => return text,
        }
    }
    text
}

/// These kinds are cached, in this order, a blank before each.
pub fn check_kinds(rt: &impl Abort, alloc: Global, analyses: &AnalysisManager<Fact>, want: &str) {
    let got = kinds(rt, alloc, analyses);
    expect_text(rt, got.as_str(), want, "kinds");
}

// The note of the fact, if it is cached.
fn note(analyses: &AnalysisManager<Fact>, kind: u32, op: Ptr<Operation>) -> Option<u64> {
    match analyses.try_get_analysis(kind, op) {
        Some(fact) => Some(fact.note),
        None => None,
    }
}

// What is asked for is computed with what it needs, and what the caller writes remains.
fn compute(
    rt: &impl Abort,
    alloc: Global,
    ctx: &Context,
    root: Ptr<Operation>,
    analyses: &mut AnalysisManager<Fact>,
) {
    assert!(rt; root.is_live(ctx));
    analyses.compute_analysis(1, root, ctx).expect(rt, "memory");
    check_kinds(rt, alloc, analyses, " 0 1");
    analyses
        .get_analysis_mut(3, root, ctx)
        .expect(rt, "memory")
        .note = 5;
    check_kinds(rt, alloc, analyses, " 0 1 2 3");
    assert!(rt; note(analyses, 3, root) == Some(5));
    let fact = analyses.get_analysis(3, root, ctx).expect(rt, "memory");
    assert!(rt; fact.note == 5);
}

fn write_note(rt: &impl Abort, analyses: &mut AnalysisManager<Fact>, root: Ptr<Operation>) {
    if let Some(fact) = analyses.try_get_analysis_mut(0, root) {
        fact.note = 7;
    }
    assert!(rt; note(analyses, 0, root) == Some(7));
    assert!(rt; note(analyses, 4, root).is_none());
}

// What stays of the kinds 0 to 3 by an answer that preserves 1 and 3.
fn retain(
    rt: &impl Abort,
    alloc: Global,
    analyses: &mut AnalysisManager<Fact>,
    answer: &mut PassResult<u32>,
) {
    answer.set_preserved(3).expect(rt, "memory");
    answer.set_preserved(1).expect(rt, "memory");
    analyses.retain_preserved(answer);
    check_kinds(rt, alloc, analyses, " 0 1 2 3");
    answer.ir_changed = IRStatus::Changed;
    analyses.retain_preserved(answer);
    check_kinds(rt, alloc, analyses, " 1 3");
    analyses.clear();
    check_kinds(rt, alloc, analyses, "");
}

fn ask_in(
    rt: &impl Abort,
    alloc: Global,
    ctx: &mut Context,
    analyses: &mut AnalysisManager<Fact>,
    answer: &mut PassResult<u32>,
) {
    let root = read(rt, alloc, ctx, "mod {}");
    compute(rt, alloc, ctx, root, analyses);
    write_note(rt, analyses, root);
    retain(rt, alloc, analyses, answer);
}

#[test]
fn what_is_computed_and_kept(rt: HostRuntime) {
    let alloc = rt.alloc();
    let mut ctx = Context::new(alloc);
    let mut analyses = AnalysisManager::<Fact>::new(alloc);
    let mut answer = PassResult::<u32>::new(alloc);
    ask_in(&rt, alloc, &mut ctx, &mut analyses, &mut answer);
}
