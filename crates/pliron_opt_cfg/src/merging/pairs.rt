//! Finding pairs of blocks that may be merged.
ghost use Rattle.std.specs.Prelude.{◌≡◌, ◌∷◌, [], ◌↔◌, ℕ, List, Some, None, IfOk, MatchOption, IsTrue, length, IsOkUnless};
ghost use Rattle.pliron_core.specs.Tree.{In, IsBlock, IsDefined, IsLive, arguments_of, block_parent_operation_of, first_of, layout_of, parent_of, successors_of};
ghost use Rattle.pliron_core.specs.Edges.{preds_of};
ghost use Rattle.pliron_laws.specs.Linked.{EdgesLast};
ghost use Rattle.pliron_rewrite_blocks.specs.Pairs.{IsMergeable};
ghost use Rattle.pliron_opt_cfg.specs.Internal.MergeSteps.{IsOnlyWay, AllDefined};

use pliron_core::{BasicBlock, Context, Def, Operation, Ptr, Value};
use pliron_laws::{Dialect, OptError};
use std::alloc::Global;

/// Two blocks that may be merged.
#[derive(Drop)]
pub(crate) struct Pair {
    pub(crate) first: Ptr<BasicBlock>,
    pub(crate) second: Ptr<BasicBlock>,
    pub(crate) jump: Ptr<Operation>,
    // what the jump forwards to each argument of the second block
    pub(crate) values: Vec<Value>,
}

// The jump that ends a block, and the block that it leads to.
#[derive(Clone, Copy)]
struct Way {
    jump: Ptr<Operation>,
    second: Ptr<BasicBlock>,
}

// Whether the block is the first of its region.
fn is_entry(block: Ptr<BasicBlock>, ctx: &Context) -> bool
    requires { IsBlock ctx.now.tree block }
    ensures { IsTrue result ↔ ((r : ℕ) × (first_of (layout_of ctx.now.tree r) None ≡ Some block)) }
{
    ctx.well_formed();
    block.get_prev(ctx).is_none()
}

// Whether the block has one predecessor, if the jump leads to it alone. Since edges are last in their blocks,
// one predecessor is one use then.
fn has_no_other_way(block: Ptr<BasicBlock>, jump: Ptr<Operation>, ctx: &Context) -> bool
    requires block { IsBlock ctx.now.tree block }
    requires goes { successors_of ctx.now.tree jump ≡ block ∷ [] }
    requires edges { (holder : ℕ) → block_parent_operation_of ctx.now.tree block ≡ Some holder → EdgesLast ctx.now.tree
        holder }
    ensures { IsTrue result ↔ (length (preds_of ctx.now.tree block) ≡ 1) }
{
    ctx.well_formed();
    block.num_use(ctx) == 1
}

// The jump that ends the block, and the block that it leads to alone, where nothing else leads.
fn only_way<D: Dialect>(first: Ptr<BasicBlock>, ctx: &Context) -> Option<Way>
    requires block { IsBlock ctx.now.tree first }
    requires edges { (holder : ℕ) → block_parent_operation_of ctx.now.tree first ≡ Some holder → EdgesLast ctx.now.tree
        holder }
    ensures { MatchOption result ((b jump : ℕ) → IsOnlyWay D.meaning ctx.now.tree first b jump →
        ⊥) (λ way. IsOnlyWay D.meaning ctx.now.tree first way.second way.jump) }
{
    ctx.well_formed();
    let Some(jump) = first.get_tail(ctx) else {
        return None;
    };
    if jump.num_successor(ctx) != 1 || !D::is_branch(jump, ctx) {
        return None;
    }
    let second = jump.get_successor(ctx, 0);
    if second == first || is_entry(second, ctx) || !has_no_other_way(second, jump, ctx) {
        return None;
    }
    Some(Way { jump, second })
}

// Whether one of the values is an argument of the block.
fn has_argument(values: &[Value], block: Ptr<BasicBlock>, ctx: &Context) -> bool
    requires { AllDefined ctx.now.tree values.now }
    ensures { IsTrue result ↔ ((v : ℕ) × In v values.now × In v (arguments_of ctx.now.tree block)) }
{
    ctx.well_formed();
    for value in values {
        if let Def::Argument(owner, _) = value.def(ctx) {
            if owner == block {
                return true;
            }
        }
    }
    false
}

// The pair whose first block this is, if there is one.
pub(crate) fn find_pair<D: Dialect>(
    alloc: Global,
    first: Ptr<BasicBlock>,
    ctx: &Context,
) -> Result<Option<Pair>, OptError>
    requires block { IsBlock ctx.now.tree first }
    requires edges { (holder : ℕ) → block_parent_operation_of ctx.now.tree first ≡ Some holder → EdgesLast ctx.now.tree
        holder }
    ensures ok { IfOk result (λ found. MatchOption found ((b jump : ℕ) (values : List ℕ) → IsMergeable D.meaning
        ctx.now.tree first b jump values → ⊥) (λ pair. IsMergeable D.meaning ctx.now.tree first pair.second pair.jump
        pair.values.items × (pair.first ≡ first))) }
    ensures memory { IsOkUnless result OptError.Memory }
{
    ctx.well_formed();
    let Some(way) = only_way::<D>(first, ctx) else {
        return Ok(None);
    };
    let values = D::successor_operands(alloc, way.jump, ctx, 0)?;
    if values.len() != way.second.num_argument(ctx) || has_argument(&values, way.second, ctx) {
        return Ok(None);
    }
    Ok(Some(Pair {
        first,
        second: way.second,
        jump: way.jump,
        values,
    }))
}
