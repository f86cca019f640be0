//! Lines of passes over a small text: what they answer, what is cached then, and how many runs are counted.
ghost use Rattle.pliron_core.specs.Tree.{IsLive};
ghost use Rattle.pliron_laws.specs.Linked.{IsWellLinked};
ghost use Rattle.pliron_dialect_bench.specs.BenchMoves.{bench};

use super::cache::kinds;
use super::expect::expect_text;
use super::facts::Fact;
use super::passes::{FailAlways, Idle, Step, Tally, Touch};
use pliron_core::{Context, IRStatus, Operation, Ptr};
use pliron_dialect_bench::{Bench, BenchKind};
use pliron_pass::{
    AnalysisManager, GuardedPass, NestedOpsPass, OpGuard, OptError, PMConfig, PassManager,
    PassResult, Passes, Repeat,
};
use pliron_test_cases::cases::{CaseRow, row_of};
use pliron_text::read_text;
use std::alloc::Global;
use std::process::Abort;

// The branch forwards nothing to a block with an argument, which verifying finds.
static VIOLATION: &str = "func { b0(): c = const 1; d = const 2; cbr c b1() b1(); b1(p): ret p }";

static FIT: &str = "func { b0(): c = const 1; d = const 2; ret c }";

// A name, a shape, words for the configuration and the passes, and what comes of it.
static CASES: &str = "\
no passes -- flat => Unchanged 0 1 2, 0 runs
an idle pass -- flat idle => Unchanged 0 1 2, 1 runs
three idle passes -- flat tally tally idle => Unchanged 0 1 2, 3 runs
a change -- flat touch => Changed 0, 1 runs
a change between idle passes -- flat idle touch idle => Changed 0, 3 runs
a failure behind a change -- flat touch fail idle => code 7, 2 runs
a failure behind an idle pass -- flat idle fail => code 7, 2 runs
a failure that is skipped -- flat skip=fail skip=passes touch fail => Changed 0, 1 runs
a change that is skipped -- flat skip=touch touch => Unchanged 0 1 2, 0 runs
a fit text, verified before and after -- flat before after idle => Unchanged 0 1 2, 1 runs
a misfit that nothing verifies -- misfit idle => Unchanged 0 1 2, 1 runs
a misfit, verified before each pass -- misfit before idle => before, 0 runs
a misfit, verified before the second pass -- misfit before=touch idle touch => before, 1 runs
a misfit, verified after each pass -- misfit after idle => after, 0 runs
a misfit, verified after a failure -- misfit after fail => after, 0 runs
a misfit, verified after the second pass -- misfit after=tally touch tally => after, 1 runs
a misfit, verified around the list alone -- misfit before=passes after=passes idle => Unchanged 0 1 2, 1 runs
an idle pass on each operation inside -- nested idle => Unchanged 0 1 2, 3 runs
a change on each operation inside -- nested touch idle => Changed 0, 6 runs
a failure on the first operation inside -- nested touch fail => code 7, 2 runs
a guard that bars -- barred touch fail => Unchanged 0 1 2, 0 runs
a guard that allows -- allowed touch => Changed 0, 1 runs
a failure under a guard that allows -- allowed touch fail => code 7, 2 runs
repeated without a change -- repeat idle => Unchanged 0 1 2, 1 runs
repeated up to the bound -- repeat touch idle => Changed 0, 6 runs
a failure in the first round -- repeat touch fail => code 7, 2 runs";

/// The operation of the text.
pub fn read(rt: &impl Abort, alloc: Global, ctx: &mut Context, text: &str) -> Ptr<Operation>
    ensures live { IsLive ctx.new.tree result }
    ensures linked { IsWellLinked bench ctx.new.tree result }
{
    let read = read_text(alloc, text.as_bytes(), ctx).expect(rt, "memory");
    let root = read.expect(rt, "readable");
    assert!(rt; root.is_live(ctx));
    root
}

// Sets what a word says.
fn set_word(rt: &impl Abort, alloc: Global, config: &mut PMConfig, word: &str) {
    let (what, name) = word.split_once("=").unwrap_or((word, ""));
    let names = match what {
        "skip" => &mut config.skip_passes,
        "before" if !name.is_empty() => &mut config.verify_before,
        "after" if !name.is_empty() => &mut config.verify_after,
        _ => {
            config.verify_before_all |= what == "before";
            config.verify_after_all |= what == "after";
            return;
        }
    };
    let name = name.to_string(alloc).expect(rt, "memory");
    names.insert(name).expect(rt, "memory");
}

// The pass of this name.
fn step_of(word: &str) -> Option<Step> {
    match word {
        "idle" => Some(Step::Idle(Idle)),
        "touch" => Some(Step::Touch(Touch)),
        "fail" => Some(Step::Fail(FailAlways { code: 7 })),
        "tally" => Some(Step::Tally(Tally { runs: 0 })),
        _ => None,
    }
}

// A word that names a pass adds it, and any other one says something for the configuration.
fn take_word(
    rt: &impl Abort,
    alloc: Global,
    word: &str,
    config: &mut PMConfig,
    passes: &mut Passes<Step>,
) {
    match step_of(word) {
        Some(step) => assert!(rt; passes.add_pass(step).is_ok()),
        None => set_word(rt, alloc, config, word),
    }
}

/// What is said of a run, where the caller keeps of the cache what the answer preserves.
pub fn outcome(
    answer: &Result<PassResult<u32>, OptError>,
    analyses: &mut AnalysisManager<Fact>,
) -> &'static str {
    match answer {
        Ok(result) => {
            analyses.retain_preserved(result);
            match result.ir_changed {
                IRStatus::Changed => "Changed",
                IRStatus::Unchanged => "Unchanged",
            }
        }
        Err(OptError::VerifyBefore) => "before",
        Err(OptError::VerifyAfter) => "after",
        Err(OptError::Pass(7)) => "code 7",
        Err(_) => "another fault",
    }
}

// The outcome, the kinds that are cached then, and how many runs are counted.
fn report(
    rt: &impl Abort,
    alloc: Global,
    answer: &Result<PassResult<u32>, OptError>,
    analyses: &mut AnalysisManager<Fact>,
) -> String {
    let mut text = String::new(alloc);
    let said = outcome(answer, analyses);
    let runs = analyses.pm_data().state().pass_run_count;
    write!(text, "{said}{}, {runs} runs", kinds(rt, alloc, analyses)).expect(rt, "memory");
    text
}

// Runs the line in the shape that is named.
fn run_shape(
    alloc: Global,
    shape: &str,
    line: Passes<Step>,
    op: Ptr<Operation>,
    ctx: &mut Context,
    analyses: &mut AnalysisManager<Fact>,
) -> Result<PassResult<u32>, OptError>
    requires live { IsLive ctx.old.tree op }
    requires linked { IsWellLinked bench ctx.old.tree op }
{
    match shape {
        "nested" => {
            let mut pass = NestedOpsPass::new(line);
            PassManager::run_pass(&mut pass, alloc, op, ctx, analyses)
        }
        "barred" => {
            let mut pass = GuardedPass::new(OpGuard::<Bench>::new(BenchKind::Mod), line);
            PassManager::run_pass(&mut pass, alloc, op, ctx, analyses)
        }
        "allowed" => {
            let mut pass = GuardedPass::new(OpGuard::<Bench>::new(BenchKind::Func), line);
            PassManager::run_pass(&mut pass, alloc, op, ctx, analyses)
        }
        "repeat" => {
            let mut pass = Repeat::new(3, line);
            PassManager::run_pass(&mut pass, alloc, op, ctx, analyses)
        }
        _ => {
            let mut pass = line;
            PassManager::run_pass(&mut pass, alloc, op, ctx, analyses)
        }
    }
}

// Runs the passes and says what comes of it.
fn run_line(
    rt: &impl Abort,
    alloc: Global,
    shape: &str,
    line: Passes<Step>,
    ctx: &mut Context,
    analyses: &mut AnalysisManager<Fact>,
) -> String {
    let text = if shape == "misfit" { VIOLATION } else { FIT };
    let root = read(rt, alloc, ctx, text);
    analyses.compute_analysis(2, root, ctx).expect(rt, "memory");
    let answer = run_shape(alloc, shape, line, root, ctx, analyses);
    report(rt, alloc, &answer, analyses)
}

// What comes of these words in this shape.
fn run_in(rt: &impl Abort, alloc: Global, shape: &str, words: &str, ctx: &mut Context) -> String {
    let mut analyses = AnalysisManager::<Fact>::new(alloc);
    let mut config = PMConfig::new(alloc);
    let mut passes = Passes::new(alloc);
    for word in words.split_ascii_whitespace() {
        take_word(rt, alloc, word, &mut config, &mut passes);
    }
    analyses.set_config(config);
    run_line(rt, alloc, shape, passes, ctx, &mut analyses)
}

fn line_in(rt: &impl Abort, alloc: Global, ctx: &mut Context, case: &str) {
    let CaseRow { name, asked, want } = row_of(case).expect(rt, "a case");
    let (shape, words) = asked.split_once(" ").unwrap_or((asked, ""));
    let said = run_in(rt, alloc, shape, words, ctx);
    expect_text(rt, said.as_str(), want, name);
}

fn lines_in(rt: &impl Abort, alloc: Global, ctx: &mut Context) {
    for case in CASES.lines() {
        line_in(rt, alloc, ctx, case);
    }
}

#[test]
fn lines_of_passes(rt: HostRuntime) {
    let alloc = rt.alloc();
    let mut ctx = Context::new(alloc);
    lines_in(&rt, alloc, &mut ctx)
}
