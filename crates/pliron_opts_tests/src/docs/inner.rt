//! What a pass inside all combinators counted can be read after a run.
use super::passes::Tally;
use pliron_core::{Context, IRStatus};
use pliron_dialect_bench::{Bench, BenchKind};
use pliron_pass::{
    AnalysisManager, BenchFacts, Either, GuardedPass, NestedOpsPass, OpGuard, OptError, Passes,
    Repeat, run_pipeline,
};
use pliron_text::read_text;
use std::alloc::Global;
use std::ops::Deref;
use std::process::Abort;

/// A pass of all combinators: a list of what is repeated on each function directly inside.
type Deep = Passes<Repeat<NestedOpsPass<GuardedPass<OpGuard<Bench>, Either<Tally, Tally>>>>>;

fn deep(alloc: Global) -> Result<Deep, OptError> {
    let guard = OpGuard::new(BenchKind::Func);
    let guarded = GuardedPass::new(guard, Either::Left(Tally { runs: 0 }));
    let mut passes = Passes::new(alloc);
    passes.add_pass(Repeat::new(3, NestedOpsPass::new(guarded)))?;
    Ok(passes)
}

// How many runs the inner pass has counted.
fn count_inner_runs(passes: &Deep) -> usize {
    let mut runs: usize = 0;
    for repeat in passes.passes() {
        let tally = match repeat.pass().pass().deref() {
            Either::Left(tally) => tally,
            Either::Right(tally) => tally,
        };
        runs = runs.saturating_add(tally.runs);
    }
    runs
}

fn runs_in(
    rt: &impl Abort,
    alloc: Global,
    passes: &mut Deep,
    ctx: &mut Context,
    analyses: &mut AnalysisManager<BenchFacts>,
) {
    let text = "mod { b0(): func { b0(): ret }; mod { }; func { b0(): ret } }";
    let root = read_text(alloc, text.as_bytes(), ctx).expect(rt, "memory");
    let root = root.expect(rt, "readable");
    let status = run_pipeline(passes, alloc, root, ctx, analyses).expect(rt, "memory");
    assert!(rt; status == IRStatus::Unchanged);
    assert!(rt; count_inner_runs(passes) == 2);
}

#[test]
fn inner_passes(rt: HostRuntime) {
    let alloc = rt.alloc();
    let mut ctx = Context::new(alloc);
    let mut analyses = AnalysisManager::new(alloc);
    let mut passes = deep(alloc).expect(&rt, "memory");
    runs_in(&rt, alloc, &mut passes, &mut ctx, &mut analyses);
}
