//! What is seen of the operations of a text.
ghost use Rattle.pliron_core.specs.Tree.{IsLive};

use pliron_core::{Context, Operation, Ptr};
use pliron_dialect_bench::Bench;
use pliron_laws::OptError;
use pliron_rewrite_rules::seeing::{is_pure, view_of};
use pliron_rewrite_rules::{Leaf, Operand, terms_replace_results};
use pliron_text::read_text;
use std::alloc::Global;
use std::process::Abort;

#[test]
fn laws_of_terms(_rt: HostRuntime) {
    terms_replace_results::<Bench>();
}

// A letter for what is seen of an operand: made, known, or neither.
fn letter(operand: &Operand) -> char {
    match operand {
        Operand::Made(_, _, _) => 'm',
        Operand::Plain(Leaf::Known(_, _)) => 'k',
        Operand::Plain(Leaf::Unknown(_)) => 'u',
    }
}

// The letters of the operands of an operation, where it is pure.
fn letters(
    alloc: Global,
    op: Ptr<Operation>,
    ctx: &Context,
    seen: &mut String,
) -> Result<(), OptError>
    requires { IsLive ctx.now.tree op }
{
    if !is_pure::<Bench>(op, ctx) {
        seen.push('-')?;
        return Ok(());
    }
    let view = view_of::<Bench>(alloc, op, ctx)?;
    for operand in view.operands.as_slice() {
        seen.push(letter(operand))?;
    }
    seen.push(';')?;
    Ok(())
}

// The letters of all operations in a function, in order.
fn letters_of_text(alloc: Global, text: &str, ctx: &mut Context) -> Result<String, OptError> {
    let mut seen = String::new(alloc);
    let Some(root) = read_text(alloc, text.as_bytes(), ctx)? else {
        return Ok(seen);
    };
    if !root.is_live(ctx) {
        return Ok(seen);
    }
    let mut next = root.first_inside(ctx);
    for _ in 0..100 {
        let Some(op) = next else {
            return Ok(seen);
        };
        if !op.is_live(ctx) {
            return Ok(seen);
        }
        letters(alloc, op, ctx, &mut seen)?;
        next = op.get_next(ctx);
    }
    Ok(seen)
}

fn seen_in(rt: &impl Abort, alloc: Global, ctx: &mut Context) {
    let text = "func { b0(x): c = const 1; s = add x c; t = mul s c; print t; u = add t s; ret u }";
    let seen = letters_of_text(alloc, text, ctx).expect(rt, "memory");
    assert_eq!(rt; seen.as_str(), ";uk;mk;-mm;-");
}

#[test]
fn operands_are_seen(rt: HostRuntime) {
    let mut ctx = Context::new(rt.alloc());
    seen_in(&rt, rt.alloc(), &mut ctx)
}
