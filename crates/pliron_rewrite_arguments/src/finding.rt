//! Which value an argument is.
ghost use Rattle.std.specs.Prelude.{◌≡◌, ◌↔◌, ◌<◌, ℕ, IfOk, IfSome, IfNone, Some, IsTrue, IsOkUnless, length, slice_get};
ghost use Rattle.pliron_core.specs.Tree.{IsBlock, uses_of, arguments_of};
ghost use Rattle.pliron_core.specs.declared.uses.Use.{Use};
ghost use Rattle.pliron_rewrite_arguments.specs.OneValue.{IsOneValue};
ghost use Rattle.pliron_rewrite_arguments.specs.Finding.{EdgeForwards, IsEntry};

use pliron_core::{BasicBlock, Context, Ptr, Value};
use pliron_laws::{Dialect, OptError};
use std::alloc::Global;

// The operand that the edge of a branch, the i-th use of the block, forwards to its argument with this index.
fn forwarded_along<D: Dialect>(
    alloc: Global,
    block: Ptr<BasicBlock>,
    index: usize,
    i: usize,
    ctx: &Context,
) -> Result<Option<Value>, OptError>
    requires block { IsBlock ctx.now.tree block }
    requires edge { i < length (uses_of ctx.now.block_uses block) }
    ensures some { IfOk result (λ o. IfSome o (λ v. (e : Use) → slice_get (uses_of ctx.now.block_uses block) i ≡ Some e
        → EdgeForwards D.meaning ctx.now.tree e index v)) }
    ensures none { IfOk result (λ o. IfNone o ((e : Use) (v : ℕ) → slice_get (uses_of ctx.now.block_uses block) i
        ≡ Some e → EdgeForwards D.meaning ctx.now.tree e index v → ⊥)) }
    ensures memory { IsOkUnless result OptError.Memory }
{
    ctx.well_formed();
    let (branch, edge) = block.get_use(ctx, i);
    if !D::is_branch(branch, ctx) {
        return Ok(None);
    }
    D::successor_operand(alloc, branch, ctx, edge, index)
}

// Whether the block is the entry of its region.
fn is_entry(block: Ptr<BasicBlock>, ctx: &Context) -> bool
    requires { IsBlock ctx.now.tree block }
    ensures { IsTrue result ↔ IsEntry ctx.now.tree block }
{
    ctx.well_formed();
    let Some(region) = block.get_parent_region(ctx) else {
        return false;
    };
    region.get_head(ctx) == Some(block)
}

// Whether no value was found before, or this one.
fn is_found_alone(found: Option<Value>, value: Value) -> bool
    ensures { IsTrue result ↔ ((first : ℕ) → found ≡ Some first → first ≡ value) }
{
    match found {
        Some(first) => first == value,
        None => true,
    }
}

/// The one value that the argument of the block with this index is: the block is no entry, only branches lead to
/// it, each edge forwards this value or the argument itself, and some edge forwards the value. `None` where there
/// is no such value.
///
/// Asks that the block is live and has the argument (`is_live` and `num_argument` test it). Errors: allocation
/// failure. Cost: one `successor_operand` for each edge to the block, up to one that decides.
pub fn find_one_value<D: Dialect>(
    alloc: Global,
    block: Ptr<BasicBlock>,
    index: usize,
    ctx: &Context,
) -> Result<Option<Value>, OptError>
    requires block { IsBlock ctx.now.tree block }
    requires index { index < length (arguments_of ctx.now.tree block) }
    ensures some { IfOk result (λ o. IfSome o (λ v. IsOneValue D.meaning ctx.now.tree block index v)) }
    ensures none { IfOk result (λ o. IfNone o ((v : ℕ) → IsOneValue D.meaning ctx.now.tree block index v → ⊥)) }
    ensures memory { IsOkUnless result OptError.Memory }
{
    ctx.well_formed();
    if is_entry(block, ctx) {
        return Ok(None);
    }
    let argument = block.get_argument(ctx, index);
    let mut found: Option<Value> = None;
    for i in 0..block.num_use(ctx) {
        let Some(value) = forwarded_along::<D>(alloc, block, index, i, ctx)? else {
            return Ok(None);
        };
        if value == argument {
            continue;
        }
        if !is_found_alone(found, value) {
            return Ok(None);
        }
        found = Some(value);
    }
    Ok(found)
}
