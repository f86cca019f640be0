//! Guards with what is under them, how often a repeated pass ran, and what managers share.
ghost use Rattle.std.specs.Prelude.{true};

use super::facts::Fact;
use super::lines::read;
use super::passes::{FailAlways, Idle, Tally, Touch};
use pliron_core::{Context, IRStatus, Operation, Ptr};
use pliron_dialect_bench::Bench;
use pliron_laws::Interface;
use pliron_pass::{
    AnalysisManager, Guard, GuardedPass, OpInterfaceGuard, OpInterfacePass, OptError, PMConfig,
    PMData, PMState, PassManager, Repeat,
};
use std::alloc::Global;
use std::process::Abort;

static TEXT: &str = "func { b0(): c = const 1; ret c }";

/// Allows every operation.
#[derive(Default, Drop)]
pub struct Everywhere;

impl Guard for Everywhere {
    ghost allows = { λ g op t. true };

    fn is_allowed(&self, _op: Ptr<Operation>, _ctx: &Context) -> bool {
        true
    }
}

// Runs the counting pass, which had run once, under the guard. It has run this often then.
fn guarded_in(
    rt: &impl Abort,
    alloc: Global,
    pass: &mut OpInterfacePass<Bench, Tally>,
    ctx: &mut Context,
    analyses: &mut AnalysisManager<Fact>,
    want: usize,
) {
    let root = read(rt, alloc, ctx, TEXT);
    pass.runs = 1;
    let answer = PassManager::run_pass(pass, alloc, root, ctx, analyses).expect(rt, "memory");
    assert!(rt; answer.ir_changed == IRStatus::Unchanged);
    assert!(rt; pass.runs == want);
}

fn check_guard(rt: &impl Abort, alloc: Global, interface: Interface, want: usize) {
    let mut ctx = Context::new(alloc);
    let mut analyses = AnalysisManager::<Fact>::new(alloc);
    let guard = OpInterfaceGuard::new(interface);
    let mut pass: OpInterfacePass<Bench, Tally> = GuardedPass::new(guard, Tally { runs: 0 });
    guarded_in(rt, alloc, &mut pass, &mut ctx, &mut analyses, want);
}

#[test]
fn guards_of_interfaces(rt: HostRuntime) {
    check_guard(&rt, rt.alloc(), Interface::BlockArgRemoval, 2);
    check_guard(&rt, rt.alloc(), Interface::Terminator, 1);
    check_guard(&rt, rt.alloc(), Interface::RegionBranch, 1);
}

fn default_in(
    rt: &impl Abort,
    alloc: Global,
    ctx: &mut Context,
    analyses: &mut AnalysisManager<Fact>,
) {
    let root = read(rt, alloc, ctx, TEXT);
    let mut pass = GuardedPass::<Everywhere, Idle>::default();
    let answer = PassManager::run_pass(&mut pass, alloc, root, ctx, analyses);
    assert!(rt; answer.is_ok());
    assert!(rt; analyses.pm_data().state().pass_run_count == 1);
}

#[test]
fn default_guard(rt: HostRuntime) {
    let alloc = rt.alloc();
    let mut ctx = Context::new(alloc);
    let mut analyses = AnalysisManager::<Fact>::new(alloc);
    default_in(&rt, alloc, &mut ctx, &mut analyses);
}

// A pass that changes something each time runs as often as it may.
fn repeated_in(
    rt: &impl Abort,
    alloc: Global,
    max: usize,
    ctx: &mut Context,
    analyses: &mut AnalysisManager<Fact>,
) {
    let root = read(rt, alloc, ctx, TEXT);
    let mut pass = Repeat::new(max, Touch);
    assert!(rt; pass.runs() == 0);
    let answer = PassManager::run_pass(&mut pass, alloc, root, ctx, analyses);
    assert!(rt; answer.is_ok());
    assert!(rt; pass.runs() == max);
}

// One that fails runs once, is counted once, and leaves an empty cache.
fn failing_in(
    rt: &impl Abort,
    alloc: Global,
    ctx: &mut Context,
    analyses: &mut AnalysisManager<Fact>,
) {
    let root = read(rt, alloc, ctx, TEXT);
    analyses.compute_analysis(1, root, ctx).expect(rt, "memory");
    let mut pass = Repeat::new(5, FailAlways { code: 9 });
    let answer = PassManager::run_pass(&mut pass, alloc, root, ctx, analyses);
    assert!(rt; answer.err() == Some(OptError::Pass(9)));
    assert!(rt; pass.runs() == 1);
    assert!(rt; analyses.cached_kind(0).is_none());
    assert!(rt; analyses.pm_data().state().pass_run_count == 1);
}

fn check_repeated(rt: &impl Abort, alloc: Global, max: usize) {
    let mut ctx = Context::new(alloc);
    let mut analyses = AnalysisManager::<Fact>::new(alloc);
    repeated_in(rt, alloc, max, &mut ctx, &mut analyses);
}

#[test]
fn repeated_passes(rt: HostRuntime) {
    check_repeated(&rt, rt.alloc(), 0);
    check_repeated(&rt, rt.alloc(), 4);
}

#[test]
fn repeated_failing(rt: HostRuntime) {
    let alloc = rt.alloc();
    let mut ctx = Context::new(alloc);
    let mut analyses = AnalysisManager::<Fact>::new(alloc);
    failing_in(&rt, alloc, &mut ctx, &mut analyses);
}

#[test]
fn new_state(rt: HostRuntime) {
    let state = PMState::new(rt.alloc());
    assert!(rt; state.pass_run_count == 0);
    assert!(rt; state.stats.is_empty());
}

#[test]
fn what_managers_share(rt: HostRuntime) {
    let alloc = rt.alloc();
    let mut data = PMData::new(alloc);
    assert!(rt; !data.config().verify_after_all);
    let mut config = PMConfig::new(alloc);
    config.verify_after_all = true;
    data.state_mut().pass_run_count = 3;
    data.set_config(config);
    assert!(rt; data.config().verify_after_all);
    assert!(rt; data.state().pass_run_count == 3);
}
