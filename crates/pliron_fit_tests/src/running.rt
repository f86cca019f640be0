//! Checked passes: roots that were fit to run are fit afterwards, and what is not well linked is refused.
use super::ill_defined::trees::holders_of;
use pliron_core::{Context, IRStatus, Operation, Ptr};
use pliron_dialect_bench::Bench;
use pliron_fuzz::FuzzSubject;
use pliron_laws::OptError;
use pliron_pass::{AnalysisManager, BenchFacts, Passes};
use pliron_pass_fit::{RunError, fit_roots, is_fit, run_checked, run_checked_for};
use pliron_pass_pipeline::{DCEPass, PassStep};
use pliron_test_cases::Tiny;
use pliron_test_cases::cases::read;
use pliron_test_cases::trees::build;
use std::alloc::Global;
use std::process::Abort;

/// A third of all.
const TEXTS: u64 = 160;

static NAMES: [&str; 4] = ["sccp", "simplify-cfg", "dce", "simplify-cfg"];

fn line(rt: &impl Abort, alloc: Global) -> Passes<PassStep<Bench, BenchFacts>> {
    let mut passes = Passes::new(alloc);
    for name in &NAMES {
        let step = PassStep::from_name(name).expect(rt, "a pass");
        passes.add_pass(step).ok().expect(rt, "memory");
    }
    passes
}

fn are_fit(rt: &impl Abort, alloc: Global, roots: &[Ptr<Operation>], ctx: &Context) {
    for root in roots {
        if root.is_live(ctx) {
            let fit = is_fit::<Bench>(alloc, *root, ctx).expect(rt, "memory");
            let key = root.key();
            assert!(rt; fit, "operation {key}");
        }
    }
}

// A run of the passes on the whole answers which of the roots were fit before it. Where a malformed text has a use
// of what is unreachable, simplification gives up.
fn run_line(
    rt: &impl Abort,
    alloc: Global,
    ctx: &mut Context,
    whole: Ptr<Operation>,
    roots: &[Ptr<Operation>],
    before: &[Ptr<Operation>],
) {
    let mut passes = line(rt, alloc);
    let mut analyses = AnalysisManager::new(alloc);
    assert!(rt; whole.is_live(ctx));
    match run_checked_for(&mut passes, alloc, whole, roots, ctx, &mut analyses) {
        Ok(run) => assert!(rt; run.fit.as_slice() == before),
        Err(fault) => assert!(rt; fault == RunError::Fault(OptError::LiveUse), "{fault}"),
    }
}

// The roots that were fit to run are fit afterwards.
fn run_whole(rt: &impl Abort, alloc: Global, ctx: &mut Context, whole: Ptr<Operation>) {
    let roots = holders_of(rt, alloc, whole, ctx);
    let before = fit_roots::<Bench>(alloc, &roots, ctx).expect(rt, "memory");
    run_line(rt, alloc, ctx, whole, &roots, &before);
    are_fit(rt, alloc, &before, ctx);
}

fn run_in(rt: &impl Abort, alloc: Global, ctx: &mut Context, text: &str) {
    if let Some(whole) = read(alloc, ctx, text) {
        run_whole(rt, alloc, ctx, whole);
    }
}

fn run_text(rt: &impl Abort, alloc: Global, seed: u64) {
    let subject = FuzzSubject::new(alloc, seed).expect(rt, "memory");
    let mut ctx = Context::new(alloc);
    run_in(rt, alloc, &mut ctx, &subject.text);
}

fn run_texts(rt: &impl Abort, alloc: Global, first: u64) {
    for place in 0..TEXTS {
        run_text(rt, alloc, first.wrapping_add(place));
    }
}

#[test]
fn first_texts(rt: HostRuntime) {
    run_texts(&rt, rt.alloc(), 0);
}

#[test]
fn second_texts(rt: HostRuntime) {
    run_texts(&rt, rt.alloc(), 160);
}

#[test]
fn third_texts(rt: HostRuntime) {
    run_texts(&rt, rt.alloc(), 320);
}

// What both runs answer for the operation, in this order.
fn answers(
    rt: &impl Abort,
    alloc: Global,
    ctx: &mut Context,
    case: &str,
) -> (Result<IRStatus, RunError>, Option<RunError>) {
    let root = build(alloc, ctx, case).expect(rt, "a tree");
    let mut pass = DCEPass::<Tiny, BenchFacts>::new();
    let mut analyses = AnalysisManager::new(alloc);
    assert!(rt; root.is_live(ctx));
    let reported = run_checked_for(&mut pass, alloc, root, &[root], ctx, &mut analyses);
    let first = run_checked(&mut pass, alloc, root, ctx, &mut analyses);
    (first, reported.err())
}

#[test]
fn what_is_not_linked_is_refused(rt: HostRuntime) {
    let alloc = rt.alloc();
    let mut ctx = Context::new(alloc);
    let case = "0 / scope; block 0; kind 9 @0";
    let refused = (Err(RunError::NotLinked), Some(RunError::NotLinked));
    assert!(&rt; answers(&rt, alloc, &mut ctx, case) == refused);
    let case = "0 / scope; block 0; const 0 @0";
    assert!(&rt; answers(&rt, alloc, &mut ctx, case) == (Ok(IRStatus::Unchanged), None));
}
