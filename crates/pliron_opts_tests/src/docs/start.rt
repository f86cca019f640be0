//! docs/START.md: a tree by calls, a run, a list of passes and the text.
use pliron_core::{
    AttrObj, BasicBlock, Context, Head, IRRewriter, Operation, Ptr, Rewriter, Value,
};
use pliron_dialect_bench::heads::{attribute_head, plain_head};
use pliron_dialect_bench::{Bench, BenchKind};
use pliron_evaluator::evaluator::evaluate;
use pliron_laws::{OptError, is_well_linked};
use pliron_pass::{AnalysisManager, BenchFacts, Passes};
use pliron_pass_pipeline::{DCEPass, PassStep, SCCPPass, run_pipeline};
use pliron_text::print_text;
use std::alloc::{AllocError, Global};
use std::process::Abort;

// A new function with one empty block.
fn function(alloc: Global, ctx: &mut Context) -> Option<(Ptr<Operation>, Ptr<BasicBlock>)> {
    let func = Operation::create(ctx, plain_head(alloc, BenchKind::Func), 0, 1).ok()?;
    if !func.is_live(ctx) || func.num_region(ctx) == 0 {
        return None;
    }
    let region = func.get_region(ctx, 0);
    let block = BasicBlock::create(ctx, region, 0).ok()?;
    Some((func, block))
}

// A new last operation of the block, with these operands and so many results.
fn append(
    ctx: &mut Context,
    block: Ptr<BasicBlock>,
    head: Head,
    operands: &[Value],
    results: usize,
) -> Option<Ptr<Operation>> {
    let op = Operation::create(ctx, head, results, 0).ok()?;
    for value in operands {
        if !op.is_live(ctx) || !value.is_live(ctx) {
            return None;
        }
        Operation::push_operand(ctx, op, *value).ok()?;
    }
    if !op.is_live(ctx) || !block.is_live(ctx) || op.holds_block(block, ctx) {
        return None;
    }
    IRRewriter::new().move_operation_to_end(ctx, op, block);
    Some(op)
}

// The first result of the operation.
fn first_result(op: Ptr<Operation>, ctx: &Context) -> Option<Value> {
    if !op.is_live(ctx) || op.num_result(ctx) == 0 {
        return None;
    }
    Some(op.get_result(ctx, 0))
}

// The result of a new constant, last in the block.
fn constant(
    alloc: Global,
    ctx: &mut Context,
    block: Ptr<BasicBlock>,
    number: i128,
) -> Option<Value> {
    let head = attribute_head(alloc, BenchKind::Const, AttrObj::Int(number)).ok()?;
    let op = append(ctx, block, head, &[], 1)?;
    first_result(op, ctx)
}

// A function that returns six by seven.
fn six_by_seven(alloc: Global, ctx: &mut Context) -> Option<Ptr<Operation>> {
    let (func, block) = function(alloc, ctx)?;
    let six = constant(alloc, ctx, block, 6)?;
    let seven = constant(alloc, ctx, block, 7)?;
    let mul = plain_head(alloc, BenchKind::Mul);
    let product = append(ctx, block, mul, &[six, seven], 1)?;
    let product = first_result(product, ctx)?;
    append(ctx, block, plain_head(alloc, BenchKind::Ret), &[product], 0)?;
    Some(func)
}

// What is seen of a run of at most a hundred steps.
fn sight_of_run(alloc: Global, root: Ptr<Operation>, ctx: &Context) -> Result<String, AllocError> {
    let sight = evaluate::<Bench>(alloc, ctx, root, Vec::new(alloc), Vec::new(alloc), 100)?;
    Ok(format!(in alloc; "{sight:?}")?)
}

// Folds constants, takes out what is dead, and prints. `None`: the tree isn't well linked.
fn fold_and_sweep(
    alloc: Global,
    root: Ptr<Operation>,
    ctx: &mut Context,
) -> Result<Option<String>, OptError> {
    if !root.is_live(ctx) || !is_well_linked::<Bench>(root, ctx) {
        return Ok(None);
    }
    let mut passes = Passes::<PassStep<Bench, BenchFacts>>::new(alloc);
    passes.add_pass(PassStep::Sccp(SCCPPass::new()))?;
    passes.add_pass(PassStep::Dce(DCEPass::new()))?;
    let mut analyses = AnalysisManager::new(alloc);
    run_pipeline(&mut passes, alloc, root, ctx, &mut analyses)?;
    Ok(Some(print_text(alloc, root, ctx)?))
}

mod trees;

fn starts_in(rt: &impl Abort, alloc: Global, ctx: &mut Context) {
    let root = six_by_seven(alloc, ctx).expect(rt, "memory");
    let before = sight_of_run(alloc, root, ctx).expect(rt, "memory");
    assert_eq!(rt; before.as_str(), "Ended([Number(42)], [])");
    let text = fold_and_sweep(alloc, root, ctx).expect(rt, "memory");
    let text = text.expect(rt, "well linked");
    assert_eq!(rt; text.as_str(), "func { b0(): v0 = const 42; ret v0 }");
    let after = sight_of_run(alloc, root, ctx).expect(rt, "memory");
    assert_eq!(rt; after.as_str(), "Ended([Number(42)], [])");
}

#[test]
fn starts(rt: HostRuntime) {
    let mut ctx = Context::new(rt.alloc());
    starts_in(&rt, rt.alloc(), &mut ctx)
}
