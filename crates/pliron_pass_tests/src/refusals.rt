//! What a refusal of memory leaves. With ample memory nothing is refused here; `rt try --test` with
//! `--fail-alloc N` refuses the Nth request.
use super::cache::check_kinds;
use super::facts::Fact;
use super::lines::read;
use super::passes::Tally;
use pliron_core::{Context, IRStatus};
use pliron_pass::{AnalysisManager, BenchFactKind, BenchFacts, PassResult, Passes};
use std::alloc::Global;
use std::process::Abort;

static TEXT: &str = "func { b0(): br b1(); b1(): ret }";

// The edges, the size and the total are cached in this order, as far as they came.
fn computed_in(
    rt: &impl Abort,
    alloc: Global,
    ctx: &mut Context,
    analyses: &mut AnalysisManager<BenchFacts>,
) {
    let root = read(rt, alloc, ctx, TEXT);
    let went_well = analyses
        .compute_analysis(BenchFactKind::Total, root, ctx)
        .is_ok();
    let order = [
        BenchFactKind::Edges,
        BenchFactKind::Size,
        BenchFactKind::Total,
    ];
    let mut count = 0;
    for i in 0..4 {
        if let Some(kind) = analyses.cached_kind(i) {
            assert!(rt; i < 3);
            assert!(rt; kind == order[i]);
            count = i + 1;
        }
    }
    assert!(rt; (count == 3) == went_well);
}

#[test]
fn refused_computing(rt: HostRuntime) {
    let alloc = rt.alloc();
    let mut ctx = Context::new(alloc);
    let mut analyses = AnalysisManager::<BenchFacts>::new(alloc);
    computed_in(&rt, alloc, &mut ctx, &mut analyses);
}

// A kind is preserved, or the answer is as before.
fn preserved_in(
    rt: &impl Abort,
    alloc: Global,
    ctx: &mut Context,
    analyses: &mut AnalysisManager<Fact>,
    answer: &mut PassResult<u32>,
) {
    let root = read(rt, alloc, ctx, TEXT);
    analyses.compute_analysis(1, root, ctx).expect(rt, "memory");
    answer.ir_changed = IRStatus::Changed;
    let went_well = answer.set_preserved(1).is_ok();
    assert!(rt; answer.ir_changed == IRStatus::Changed);
    analyses.retain_preserved(answer);
    let want = if went_well { " 1" } else { "" };
    check_kinds(rt, alloc, analyses, want);
}

#[test]
fn refused_preserving(rt: HostRuntime) {
    let alloc = rt.alloc();
    let mut ctx = Context::new(alloc);
    let mut analyses = AnalysisManager::<Fact>::new(alloc);
    let mut answer = PassResult::<u32>::new(alloc);
    preserved_in(&rt, alloc, &mut ctx, &mut analyses, &mut answer);
}

// A pass that there is no room for comes back as it was.
#[test]
fn refused_adding(rt: HostRuntime) {
    let alloc = rt.alloc();
    let mut passes = Passes::new(alloc);
    for runs in 0..9 {
        if let Err(refused) = passes.add_pass(Tally { runs }) {
            assert!(rt; refused.value.runs == runs);
        }
    }
}
