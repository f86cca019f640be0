//! docs/PASSES.md and docs/DRIVERS.md: a pass, and a list of different passes.
ghost use Rattle.std.specs.Prelude.{◌≡◌, ◌+◌, ◌-◌, ◌^◌, false, min};
ghost use Rattle.pliron_opts_tests.specs.declared.docs.passes.TheConstants.{TALLY};

use super::walking::SweepLarge;
use pliron_core::{Context, IRStatus, Operation, Ptr};
use pliron_dialect_bench::Bench;
use pliron_pass::{
    AnalysisManager, BenchFactKind, BenchFacts, Either, OptError, Pass, PassResult, Passes,
    run_pipeline,
};
use pliron_text::read_text;
use std::alloc::Global;
use std::process::Abort;

const TALLY: &str = "tally";

/// Counts its runs.
#[derive(Drop)]
pub struct Tally {
    pub runs: usize,
}

impl Pass for Tally {
    type D = Bench;

    type E = BenchFacts;

    ghost is_pass_manager = { λ p. false };

    ghost name = { λ p. TALLY.now };

    ghost outcome = { λ p p' op s s' r. (p'.runs ≡ min (p.runs + 1) (2 ^ 64 - 1)) × (s' ≡ s) };

    fn name(&self) -> &str {
        TALLY
    }

    #[tactic(auto, using(pliron_theory::proofs::ChangeLemmas::change_refl))]
    fn run(
        &mut self,
        alloc: Global,
        _op: Ptr<Operation>,
        _ctx: &mut Context,
        _analyses: &mut AnalysisManager<BenchFacts>,
    ) -> Result<PassResult<BenchFactKind>, OptError> {
        self.runs = self.runs.saturating_add(1);
        Ok(PassResult::new(alloc))
    }

    fn is_pass_manager(&self) -> bool {
        false
    }
}

/// One of two passes.
type Mine = Either<SweepLarge, Tally>;

// A sweep between two counts.
fn line(alloc: Global) -> Result<Passes<Mine>, OptError> {
    let mut passes = Passes::new(alloc);
    passes.add_pass(Either::Right(Tally { runs: 0 }))?;
    passes.add_pass(Either::Left(SweepLarge { least: 2 }))?;
    passes.add_pass(Either::Right(Tally { runs: 0 }))?;
    Ok(passes)
}

// How many runs the passes of a list have counted.
fn count_runs(passes: &Passes<Mine>) -> usize {
    let mut runs: usize = 0;
    for pass in passes.passes() {
        if let Either::Right(tally) = pass {
            runs = runs.saturating_add(tally.runs);
        }
    }
    runs
}

fn runs_in(
    rt: &impl Abort,
    alloc: Global,
    passes: &mut Passes<Mine>,
    ctx: &mut Context,
    analyses: &mut AnalysisManager<BenchFacts>,
) {
    let text = "mod { b0(): func { b0(): x = const 1; y = const 2; ret x } }";
    let root = read_text(alloc, text.as_bytes(), ctx).expect(rt, "memory");
    let root = root.expect(rt, "readable");
    let status = run_pipeline(passes, alloc, root, ctx, analyses).expect(rt, "memory");
    assert!(rt; status == IRStatus::Changed);
    assert!(rt; count_runs(passes) == 2);
    assert!(rt; analyses.pm_data().state().pass_run_count == 3);
}

#[test]
fn runs(rt: HostRuntime) {
    let alloc = rt.alloc();
    let mut ctx = Context::new(alloc);
    let mut analyses = AnalysisManager::new(alloc);
    let mut passes = line(alloc).expect(&rt, "memory");
    runs_in(&rt, alloc, &mut passes, &mut ctx, &mut analyses);
}
