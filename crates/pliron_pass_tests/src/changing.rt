//! Passes that change the tree or the cache.
ghost use Rattle.std.specs.Prelude.{◌≡◌, false, [], ◌∷◌};

use super::cache::{check_kinds, kinds};
use super::expect::expect_text;
use super::facts::Fact;
use super::lines::{outcome, read};
use pliron_core::{Context, Operation, Ptr};
use pliron_dialect_bench::Bench;
use pliron_opt_dce::dce;
use pliron_pass::{AnalysisManager, OptError, Pass, PassManager, PassResult, Passes};
use pliron_test_cases::cases::{CaseRow, row_of};
use pliron_text::print_text;
use std::alloc::Global;
use std::process::Abort;

/// Takes out what is dead, and preserves nothing where something was.
#[derive(Drop)]
pub struct Sweep;

impl Pass for Sweep {
    type D = Bench;

    type E = Fact;

    ghost is_pass_manager = { λ p. false };

    ghost name = { λ p. 0x73 ∷ 0x77 ∷ 0x65 ∷ 0x65 ∷ 0x70 ∷ [] };

    ghost outcome = { λ p p' op s s' r. (s'.cache ≡ s.cache) × (s'.common ≡ s.common) };

    fn name(&self) -> &str {
        "sweep"
    }

    fn run(
        &mut self,
        alloc: Global,
        op: Ptr<Operation>,
        ctx: &mut Context,
        _analyses: &mut AnalysisManager<Fact>,
    ) -> Result<PassResult<u32>, OptError> {
        let changed = dce::<Bench>(alloc, op, ctx)?;
        let mut answer = PassResult::new(alloc);
        answer.ir_changed = changed;
        Ok(answer)
    }

    fn is_pass_manager(&self) -> bool {
        false
    }
}

/// Writes its note into the fact of the kind 1, which is computed where it is not cached.
#[derive(Drop)]
pub struct Annotate {
    pub note: u64,
}

impl Pass for Annotate {
    type D = Bench;

    type E = Fact;

    ghost is_pass_manager = { λ p. false };

    ghost name = { λ p. 0x61 ∷ 0x6e ∷ 0x6e ∷ 0x6f ∷ 0x74 ∷ 0x61 ∷ 0x74 ∷ 0x65 ∷ [] };

    ghost outcome = { λ p p' op s s' r. (s'.tree ≡ s.tree) × (s'.common ≡ s.common) };

    fn name(&self) -> &str {
        "annotate"
    }

    #[tactic(auto, using(pliron_theory::proofs::ChangeLemmas::change_refl))]
    fn run(
        &mut self,
        alloc: Global,
        op: Ptr<Operation>,
        ctx: &mut Context,
        analyses: &mut AnalysisManager<Fact>,
    ) -> Result<PassResult<u32>, OptError> {
        let fact = analyses.get_analysis_mut(1, op, ctx)?;
        fact.note = self.note;
        Ok(PassResult::new(alloc))
    }

    fn is_pass_manager(&self) -> bool {
        false
    }
}

// A name and a text, and what a sweep answers, what it leaves of the cache and of the text.
static CASES: &str = "\
an unused argument -- func { b0(): x = const 1; br b1(x); b1(a): c = const 7; ret c } => Changed, 1 runs, func { \
    b0(): br b1(); b1(): v0 = const 7; ret v0 }
nothing dead -- func { b0(): x = const 1; br b1(x); b1(a): ret a } => Unchanged 0 1 2, 1 runs, func { b0(): v0 = \
    const 1; br b1(v0); b1(v1): ret v1 }";

// What comes of a sweep over the text.
fn swept_in(
    rt: &impl Abort,
    alloc: Global,
    text: &str,
    ctx: &mut Context,
    analyses: &mut AnalysisManager<Fact>,
) -> String {
    let root = read(rt, alloc, ctx, text);
    analyses.compute_analysis(2, root, ctx).expect(rt, "memory");
    let answer = PassManager::run_pass(&mut Sweep, alloc, root, ctx, analyses);
    let said = outcome(&answer, analyses);
    let kept = kinds(rt, alloc, analyses);
    let runs = analyses.pm_data().state().pass_run_count;
    let left = print_text(alloc, root, ctx).expect(rt, "memory");
    format!(in alloc; "{said}{kept}, {runs} runs, {left}").expect(rt, "memory")
}

fn check(rt: &impl Abort, alloc: Global, case: &str) {
    let CaseRow { name, asked, want } = row_of(case).expect(rt, "a case");
    let mut ctx = Context::new(alloc);
    let mut analyses = AnalysisManager::<Fact>::new(alloc);
    let said = swept_in(rt, alloc, asked, &mut ctx, &mut analyses);
    expect_text(rt, said.as_str(), want, name);
}

#[test]
fn sweeps(rt: HostRuntime) {
    for case in CASES.lines() {
        check(&rt, rt.alloc(), case);
    }
}

// A line of writers.
fn writers(rt: &impl Abort, alloc: Global) -> Passes<Annotate> {
    let mut passes = Passes::new(alloc);
    for note in [5, 7] {
        assert!(rt; passes.add_pass(Annotate { note }).is_ok());
    }
    passes
}

// The last note remains, the cache is kept, and the run that is past the greatest count is not counted.
fn annotated_in(
    rt: &impl Abort,
    alloc: Global,
    passes: &mut Passes<Annotate>,
    ctx: &mut Context,
    analyses: &mut AnalysisManager<Fact>,
) {
    let root = read(rt, alloc, ctx, "mod {}");
    analyses.pm_data_mut().state_mut().pass_run_count = usize::MAX - 1;
    let answer = PassManager::run_pass(passes, alloc, root, ctx, analyses);
    expect_text(rt, outcome(&answer, analyses), "Unchanged", "the answer");
    check_kinds(rt, alloc, analyses, " 0 1");
    let fact = analyses.get_analysis(1, root, ctx).expect(rt, "memory");
    assert!(rt; fact.note == 7);
    assert!(rt; analyses.pm_data().state().pass_run_count == usize::MAX);
}

#[test]
fn annotates(rt: HostRuntime) {
    let alloc = rt.alloc();
    let mut ctx = Context::new(alloc);
    let mut analyses = AnalysisManager::<Fact>::new(alloc);
    let mut passes = writers(&rt, alloc);
    annotated_in(&rt, alloc, &mut passes, &mut ctx, &mut analyses);
}
