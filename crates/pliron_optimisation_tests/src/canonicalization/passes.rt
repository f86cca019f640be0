//! The pass in lists of passes.
ghost use Rattle.pliron_dialect_bench.specs.BenchMoves.{bench};
ghost use Rattle.pliron_core.specs.Tree.{IsLive};
ghost use Rattle.pliron_laws.specs.Linked.{IsWellLinked};

use pliron_core::{Context, IRStatus, Operation, Ptr};
use pliron_dialect_bench::Bench;
use pliron_laws::OptError;
use pliron_pass::{AnalysisManager, BenchFacts, Pass, Passes};
use pliron_pass_pipeline::{
    CanonicalizePass, DCEPass, PassStep, pipelines_report_accurately, run_pipeline,
};
use pliron_test_cases::cases::{line, read};
use std::alloc::Global;
use std::process::Abort;

static TEXT: &str = "func { b0(x): z = const 0; a = mul x z; b = mul a x; ret b }";

type Canonicalize = CanonicalizePass<Bench, BenchFacts>;

// What the list of both passes answers.
fn run(
    rt: &impl Abort,
    alloc: Global,
    root: Ptr<Operation>,
    ctx: &mut Context,
) -> Result<IRStatus, OptError>
    requires live { IsLive ctx.old.tree root }
    requires linked { IsWellLinked bench ctx.old.tree root }
{
    let mut passes = Passes::<PassStep<Bench, BenchFacts>>::new(alloc);
    let canonicalize = PassStep::Canonicalize(CanonicalizePass::new());
    assert!(rt; passes.add_pass(canonicalize).is_ok());
    assert!(rt; passes.add_pass(PassStep::Dce(DCEPass::new())).is_ok());
    let mut analyses = AnalysisManager::new(alloc);
    run_pipeline(&mut passes, alloc, root, ctx, &mut analyses)
}

fn run_in(rt: &impl Abort, alloc: Global, ctx: &mut Context) {
    let root = read(alloc, ctx, TEXT).expect(rt, "a text");
    let status = run(rt, alloc, root, ctx).expect(rt, "memory");
    assert!(rt; status == IRStatus::Changed);
    let text = line(alloc, ctx, root).expect(rt, "the root");
    assert!(rt;
        text.as_str() == "func { b0(v0): v1 = const 0; ret v1 }",
        "{text}"
    );
}

#[test]
fn the_pass_and_another_in_a_list(rt: HostRuntime) {
    let mut ctx = Context::new(rt.alloc());
    run_in(&rt, rt.alloc(), &mut ctx)
}

#[test]
fn the_name_of_the_pass(rt: HostRuntime) {
    pipelines_report_accurately::<PassStep<Bench, BenchFacts>>();
    let pass = Canonicalize::new();
    assert!(rt; pass.name() == "canonicalize");
}
