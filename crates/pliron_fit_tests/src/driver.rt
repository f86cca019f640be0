//! docs/DRIVERS.md: a driver that makes a tree by calls, checks it, optimises and prints.
ghost use Rattle.pliron_core.specs.Tree.{IsLive};

use super::expect::expect_text;
use pliron_core::{
    AttrObj, BasicBlock, Context, Head, IRRewriter, Operation, Ptr, Rewriter, Value,
};
use pliron_dialect_bench::heads::{attribute_head, plain_head};
use pliron_dialect_bench::{Bench, BenchKind};
use pliron_pass::{AnalysisManager, BenchFacts, OptError, Passes};
use pliron_pass_fit::{RunError, find_violation, run_checked};
use pliron_pass_pipeline::PassStep;
use pliron_text::print_text;
use std::alloc::Global;
use std::process::Abort;

// A new operation with these operands and so many results, in no block.
fn make_operation(
    ctx: &mut Context,
    head: Head,
    operands: &[Value],
    results: usize,
) -> Option<Ptr<Operation>> {
    let op = Operation::create(ctx, head, results, 0).ok()?;
    for value in operands {
        if !op.is_live(ctx) || !value.is_live(ctx) {
            return None;
        }
        Operation::push_operand(ctx, op, *value).ok()?;
    }
    Some(op)
}

// The operations go to the end of the block, in this order.
fn put(ctx: &mut Context, block: Ptr<BasicBlock>, ops: &[Ptr<Operation>]) -> Option<()> {
    for op in ops {
        if !op.is_live(ctx) || !block.is_live(ctx) || op.holds_block(block, ctx) {
            return None;
        }
        IRRewriter::new().move_operation_to_end(ctx, *op, block);
    }
    Some(())
}

fn first_result(op: Ptr<Operation>, ctx: &Context) -> Option<Value> {
    if !op.is_live(ctx) || op.num_result(ctx) == 0 {
        return None;
    }
    Some(op.get_result(ctx, 0))
}

// A function that returns the square of six; its constant is first or, by a slip, last.
fn square(alloc: Global, ctx: &mut Context, is_right: bool) -> Option<Ptr<Operation>> {
    let func = Operation::create(ctx, plain_head(alloc, BenchKind::Func), 0, 1).ok()?;
    if !func.is_live(ctx) || func.num_region(ctx) == 0 {
        return None;
    }
    let block = BasicBlock::create(ctx, func.get_region(ctx, 0), 0).ok()?;
    let six = attribute_head(alloc, BenchKind::Const, AttrObj::Int(6)).ok()?;
    let six = make_operation(ctx, six, &[], 1)?;
    let number = first_result(six, ctx)?;
    let mul = make_operation(ctx, plain_head(alloc, BenchKind::Mul), &[number, number], 1)?;
    let product = first_result(mul, ctx)?;
    let ret = make_operation(ctx, plain_head(alloc, BenchKind::Ret), &[product], 0)?;
    if is_right {
        put(ctx, block, &[six, mul, ret])?;
    } else {
        put(ctx, block, &[mul, six, ret])?;
    }
    Some(func)
}

// What the passes make of the operation, or what keeps it from being fit to run.
fn optimise_root(alloc: Global, root: Ptr<Operation>, ctx: &mut Context) -> Result<String, OptError>
    requires { IsLive ctx.old.tree root }
{
    if let Some(violation) = find_violation::<Bench>(alloc, root, ctx)? {
        return Ok(format!(in alloc; "{violation}")?);
    }
    let mut passes = Passes::<PassStep<Bench, BenchFacts>>::new(alloc);
    for name in ["sccp", "simplify-cfg", "dce"] {
        if let Some(step) = PassStep::from_name(name) {
            passes.add_pass(step)?;
        }
    }
    let mut analyses = AnalysisManager::new(alloc);
    match run_checked(&mut passes, alloc, root, ctx, &mut analyses) {
        Ok(_) => Ok(print_text(alloc, root, ctx)?),
        Err(RunError::NotLinked) => Ok(format!(in alloc; "{}", RunError::NotLinked)?),
        Err(RunError::Fault(fault)) => Err(fault),
    }
}

fn check_in(rt: &impl Abort, alloc: Global, ctx: &mut Context, is_right: bool, want: &str) {
    let root = square(alloc, ctx, is_right).expect(rt, "memory");
    assert!(rt; root.is_live(ctx));
    let said = optimise_root(alloc, root, ctx).expect(rt, "memory");
    expect_text(rt, said.as_str(), want, "the driver");
}

#[test]
fn drives(rt: HostRuntime) {
    let alloc = rt.alloc();
    let mut ctx = Context::new(alloc);
    check_in(
        &rt,
        alloc,
        &mut ctx,
        true,
        "func { b0(): v0 = const 36; ret v0 }",
    );
}

#[test]
fn says_what_is_wrong(rt: HostRuntime) {
    let alloc = rt.alloc();
    let mut ctx = Context::new(alloc);
    let want = "the definition of operand 0 does not dominate operation 2";
    check_in(&rt, alloc, &mut ctx, false, want);
}
