//! The pass in a list of passes.
ghost use Rattle.pliron_dialect_bench.specs.BenchMoves.{bench};
ghost use Rattle.pliron_core.specs.Tree.{IsLive};
ghost use Rattle.pliron_laws.specs.Linked.{IsWellLinked};

use pliron_core::{Context, IRStatus, Operation, Ptr};
use pliron_dialect_bench::Bench;
use pliron_laws::OptError;
use pliron_pass::{AnalysisManager, BenchFacts, Pass, Passes};
use pliron_pass_pipeline::{CSEPass, run_pipeline};
use pliron_test_cases::cases::{line, read};
use std::alloc::Global;
use std::process::Abort;

static TEXT: &str = "func { b0(x): a = add x x; b = add x x; ret a b }";

// What the list of the pass alone answers.
fn run(
    rt: &impl Abort,
    alloc: Global,
    root: Ptr<Operation>,
    ctx: &mut Context,
) -> Result<IRStatus, OptError>
    requires live { IsLive ctx.old.tree root }
    requires linked { IsWellLinked bench ctx.old.tree root }
{
    let mut passes = Passes::<CSEPass<Bench, BenchFacts>>::new(alloc);
    assert!(rt; passes.add_pass(CSEPass::new()).is_ok());
    let mut analyses = AnalysisManager::new(alloc);
    run_pipeline(&mut passes, alloc, root, ctx, &mut analyses)
}

fn run_in(rt: &impl Abort, alloc: Global, ctx: &mut Context) {
    let root = read(alloc, ctx, TEXT).expect(rt, "a text");
    let status = run(rt, alloc, root, ctx).expect(rt, "memory");
    assert!(rt; status == IRStatus::Changed);
    let text = line(alloc, ctx, root).expect(rt, "the root");
    assert!(rt;
        text.as_str() == "func { b0(v0): v1 = add v0 v0; ret v1 v1 }",
        "{text}"
    );
}

#[test]
fn the_pass_in_a_list(rt: HostRuntime) {
    let mut ctx = Context::new(rt.alloc());
    run_in(&rt, rt.alloc(), &mut ctx)
}

#[test]
fn the_name_of_the_pass(rt: HostRuntime) {
    let pass = CSEPass::<Bench, BenchFacts>::new();
    assert!(rt; pass.name() == "cse");
}
