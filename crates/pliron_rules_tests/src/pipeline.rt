//! A pipeline on a module of a program.
use pliron_core::Context;
use pliron_dialect_bench::Bench;
use pliron_pass::{AnalysisManager, BenchFacts, OptError, Passes};
use pliron_pass_linked::run_pipeline_in_program;
use pliron_pass_pipeline::PassStep;
use pliron_text::{print_text, read_text};
use std::alloc::Global;
use std::process::Abort;

// The text without its dead code.
fn without_dead_code(
    alloc: Global,
    text: &str,
    ctx: &mut Context,
) -> Result<Option<String>, OptError> {
    let mut passes = Passes::<PassStep<Bench, BenchFacts>>::new(alloc);
    let Some(step) = PassStep::from_name("dce") else {
        return Ok(None);
    };
    passes.add_pass(step)?;
    let Some(root) = read_text(alloc, text.as_bytes(), ctx)? else {
        return Ok(None);
    };
    let mut analyses = AnalysisManager::new(alloc);
    run_pipeline_in_program(&mut passes, alloc, root, ctx, &mut analyses)?;
    Ok(Some(print_text(alloc, root, ctx)?))
}

fn goes_in(rt: &impl Abort, alloc: Global, ctx: &mut Context) {
    let text = "func { b0(): c = const 1; d = const 2; ret c }";
    let answer = without_dead_code(alloc, text, ctx).expect(rt, "memory");
    let printed = answer.expect(rt, "a pass and a text");
    assert_eq!(rt; printed.as_str(), "func { b0(): v0 = const 1; ret v0 }");
}

#[test]
fn dead_code_of_a_module_goes(rt: HostRuntime) {
    let mut ctx = Context::new(rt.alloc());
    goes_in(&rt, rt.alloc(), &mut ctx)
}
