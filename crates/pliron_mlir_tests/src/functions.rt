//! A function with a switch by calls, and the three optimisations on it.
ghost use Rattle.pliron_core.specs.Tree.{IsBlock, IsLive};

use pliron_bits::{BinaryOperator, Flags};
use pliron_core::{BasicBlock, Context, Head, IRRewriter, Operation, Ptr, Rewriter, Value};
use pliron_dialect_mlir::{
    AnyMeaning, Class, Mlir, binary_head, class_of_head, constant_head, form_of, number,
    plain_head, switch_head,
};
use pliron_laws::is_well_linked;
use pliron_pass::{AnalysisManager, BenchFacts, Passes};
use pliron_pass_pipeline::{DCEPass, PassStep, SCCPPass, SimplifyCFGPass, run_pipeline};
use std::alloc::Global;
use std::process::Abort;

fn append(
    ctx: &mut Context,
    block: Ptr<BasicBlock>,
    head: Head,
    operands: &[Value],
    results: usize,
    successors: &[Ptr<BasicBlock>],
) -> Option<Ptr<Operation>> {
    let op = Operation::create(ctx, head, results, 0).ok()?;
    for value in operands {
        if !op.is_live(ctx) || !value.is_live(ctx) {
            return None;
        }
        Operation::push_operand(ctx, op, *value).ok()?;
    }
    for target in successors {
        if !op.is_live(ctx) || !target.is_live(ctx) {
            return None;
        }
        Operation::push_successor(ctx, op, *target).ok()?;
    }
    if !op.is_live(ctx) || !block.is_live(ctx) || op.holds_block(block, ctx) {
        return None;
    }
    IRRewriter::new().move_operation_to_end(ctx, op, block);
    Some(op)
}

// A new operation with one result, at the end of the block.
fn value(
    ctx: &mut Context,
    block: Ptr<BasicBlock>,
    head: Head,
    operands: &[Value],
) -> Option<Value> {
    let op = append(ctx, block, head, operands, 1, &[])?;
    if !op.is_live(ctx) || op.num_result(ctx) == 0 {
        return None;
    }
    Some(op.get_result(ctx, 0))
}

fn argument(block: Ptr<BasicBlock>, ctx: &Context) -> Option<Value> {
    if !block.is_live(ctx) || block.num_argument(ctx) == 0 {
        return None;
    }
    Some(block.get_argument(ctx, 0))
}

// A new block at the end of the function, with so many arguments.
fn block(ctx: &mut Context, func: Ptr<Operation>, arguments: usize) -> Option<Ptr<BasicBlock>> {
    if !func.is_live(ctx) || func.num_region(ctx) == 0 {
        return None;
    }
    let region = func.get_region(ctx, 0);
    BasicBlock::create(ctx, region, arguments).ok()
}

// `^0: k = 5; j = 7; s = k + j; opaque(s); switch s [9: ^2(k), 12: ^3(s)] default ^1(j)`, and each other block passes
// its argument to the world and returns it. The forms are 10 and on.
fn function(alloc: Global, ctx: &mut Context) -> Option<Ptr<Operation>> {
    let func = Operation::create(ctx, plain_head(alloc, Class::Root, 10).ok()?, 0, 1).ok()?;
    let entry = block(ctx, func, 0)?;
    let mut blocks = Vec::new(alloc);
    for _ in 0..3 {
        blocks.push(block(ctx, func, 1)?).ok()?;
    }
    let k = value(
        ctx,
        entry,
        constant_head(alloc, number(32, 5), 11).ok()?,
        &[],
    )?;
    let j = value(
        ctx,
        entry,
        constant_head(alloc, number(32, 7), 12).ok()?,
        &[],
    )?;
    let flags = Flags {
        no_signed_wrap: true,
        ..Flags::NONE
    };
    let sum = binary_head(alloc, BinaryOperator::Add, 32, flags, 13).ok()?;
    let s = value(ctx, entry, sum, &[k, j])?;
    value(ctx, entry, plain_head(alloc, Class::Opaque, 14).ok()?, &[s])?;
    let head = switch_head(alloc, &[1, 1, 1], 32, &[9, 12], 15).ok()?;
    append(ctx, entry, head, &[s, j, k, s], 0, &blocks)?;
    for block in &blocks {
        let given = argument(*block, ctx)?;
        append(
            ctx,
            *block,
            plain_head(alloc, Class::Effect, 16).ok()?,
            &[given],
            0,
            &[],
        )?;
        append(
            ctx,
            *block,
            plain_head(alloc, Class::Leave, 17).ok()?,
            &[given],
            0,
            &[],
        )?;
    }
    Some(func)
}

// Adds the class and the form of the operation.
fn push_operation(alloc: Global, text: &mut String, op: Ptr<Operation>, ctx: &Context) -> Option<()>
    requires { IsLive ctx.now.tree op }
{
    let head = op.head(ctx);
    let (class, form) = (class_of_head(head), form_of(head));
    text.push_str(format!(in alloc; " {class:?} {form:?}").ok()?.as_str())
        .ok()
}

// Adds those of the operations of the block.
fn push_block(alloc: Global, text: &mut String, block: Ptr<BasicBlock>, ctx: &Context) -> Option<()>
    requires { IsBlock ctx.now.tree block }
{
    text.push_str("^").ok()?;
    let mut op = block.get_head(ctx);
    for _ in 0..8 {
        let Some(here) = op else {
            break;
        };
        if !here.is_live(ctx) {
            break;
        }
        push_operation(alloc, text, here, ctx)?;
        op = here.get_next(ctx);
    }
    Some(())
}

// The classes and forms of the operations of the blocks.
fn shown(alloc: Global, func: Ptr<Operation>, ctx: &Context) -> Option<String> {
    if !func.is_live(ctx) || func.num_region(ctx) == 0 {
        return None;
    }
    let mut text = String::new(alloc);
    let mut block = func.get_region(ctx, 0).get_head(ctx);
    for _ in 0..8 {
        let Some(at) = block else {
            break;
        };
        if !at.is_live(ctx) {
            break;
        }
        push_block(alloc, &mut text, at, ctx)?;
        block = at.get_next(ctx);
    }
    Some(text)
}

fn optimise(alloc: Global, root: Ptr<Operation>, ctx: &mut Context) -> Option<String> {
    if !root.is_live(ctx) || !is_well_linked::<Mlir<AnyMeaning>>(root, ctx) {
        return None;
    }
    let mut passes = Passes::<PassStep<Mlir<AnyMeaning>, BenchFacts>>::new(alloc);
    passes.add_pass(PassStep::Sccp(SCCPPass::new())).ok()?;
    passes
        .add_pass(PassStep::SimplifyCfg(SimplifyCFGPass::new()))
        .ok()?;
    passes.add_pass(PassStep::Dce(DCEPass::new())).ok()?;
    let mut analyses = AnalysisManager::new(alloc);
    run_pipeline(&mut passes, alloc, root, ctx, &mut analyses).ok()?;
    shown(alloc, root, ctx)
}

fn folds_in(rt: &impl Abort, alloc: Global, ctx: &mut Context) {
    let root = function(alloc, ctx).expect(rt, "memory");
    let after = optimise(alloc, root, ctx).expect(rt, "memory");
    assert_eq!(rt;
        after.as_str(),
        "^ Some(Constant) None Some(Effect) Some(16) Some(Leave) Some(17)"
    );
}

#[test]
fn folds_a_switch(rt: HostRuntime) {
    let mut ctx = Context::new(rt.alloc());
    folds_in(&rt, rt.alloc(), &mut ctx)
}
