//! Arguments that are added to blocks, with what the edges forward to them.
ghost use Rattle.std.specs.Prelude.{◌≡◌, ◌≢◌, ◌<◌, ◌≤◌, ◌-◌, ◌↔◌, ℕ, Bool, Some, None, IfOk, IfSome, IfNone, OnOk, OnErr, IsTrue, length, drop, IsOkUnless};
ghost use Rattle.pliron_core.specs.declared.uses.Use.{Use};
ghost use Rattle.pliron_core.specs.Tree.{Tree, In, IsLive, IsBlock, IsDefined, uses_of, successors_of};
ghost use Rattle.pliron_core.specs.Writes.{argument_pushed};
ghost use Rattle.pliron_laws.specs.Datum.{Head};
ghost use Rattle.pliron_theory.specs.Keeps.{IsFit, KeepsAllRuns, with_roots};
ghost use Rattle.pliron_theory.specs.Renaming.{MayUse};
ghost use Rattle.pliron_rewrite_arguments.specs.Finding.{IsEntry};
ghost use Rattle.pliron_rewrite_loops.specs.Lengthening.{EdgesLengthened};
ghost use Rattle.pliron_rewrite_loops.specs.Added.{ForwardsSoMany, LengthensEdge, LengthensEdges as AreLengthened, IsArgumentAdded};

use pliron_core::{BasicBlock, Context, Operation, Ptr, Value};
use pliron_dialect_edges::{LengthensEdges, LongerBranch};
use pliron_laws::{Dialect, OptError};
use std::alloc::Global;

// Whether the edge is of a branch and forwards so many values.
fn forwards_so_many<D: Dialect>(
    alloc: Global,
    op: Ptr<Operation>,
    edge: usize,
    count: usize,
    ctx: &Context,
) -> Result<bool, OptError>
    requires live { IsLive ctx.now.tree op }
    requires edge { edge < length (successors_of ctx.now.tree op) }
    ensures ok { IfOk result (λ many. IsTrue many ↔ ForwardsSoMany D.meaning ctx.now.tree op edge count) }
    ensures memory { IsOkUnless result OptError.Memory }
{
    if !D::is_branch(op, ctx) {
        return Ok(false);
    }
    let values = D::successor_operands(alloc, op, ctx, edge)?;
    Ok(values.len() == count)
}

// The edge, which forwards so many values, forwards this one too, behind them. Nothing changes where it forwards
// another number, or the dialect has no such branch.
fn lengthen_edge<D: LengthensEdges>(
    alloc: Global,
    op: Ptr<Operation>,
    edge: usize,
    count: usize,
    value: Value,
    ctx: &mut Context,
) -> Result<bool, OptError>
    requires live { IsLive ctx.old.tree op }
    requires edge { edge < length (successors_of ctx.old.tree op) }
    requires value { IsDefined ctx.old.tree value }
    ensures ok { IfOk result (λ done. LengthensEdge D.meaning D.shortened count value (record {
      user = op;
      place
          = edge;
    }) ctx.old.tree ctx.new.tree done) }
    ensures refused { OnErr result (ctx.new.tree ≡ ctx.old.tree) }
    ensures memory { IsOkUnless result OptError.Memory }
    ensures block_uses { ctx.new.block_uses ≡ ctx.old.block_uses }
{
    ctx.well_formed();
    if !forwards_so_many::<D>(alloc, op, edge, count, ctx)? {
        return Ok(false);
    }
    let Some(longer) = D::lengthen(alloc, op, ctx, edge)? else {
        return Ok(false);
    };
    let LongerBranch { head, place } = longer;
    Operation::insert_operand(ctx, op, place, value)?;
    Operation::replace_head(ctx, op, head);
    Ok(true)
}

// The edges to the block from this index on, which got a value each behind so many others, lose it again.
fn shorten_edges<D: Dialect>(block: Ptr<BasicBlock>, from: usize, count: usize, ctx: &mut Context)
    requires block { IsBlock ctx.old.tree block }
    requires from { from ≤ length (uses_of ctx.old.block_uses block) }
    requires lengthened { (value : ℕ) × (t : Tree) × EdgesLengthened D.meaning D.shortened count value (drop from
        (uses_of ctx.old.block_uses block)) t ctx.old.tree }
    ensures edges_back { (value : ℕ) (t : Tree) → EdgesLengthened D.meaning D.shortened count value (drop from (uses_of
        ctx.old.block_uses block)) t ctx.old.tree → ctx.new.tree ≡ t }
    ensures block_uses { ctx.new.block_uses ≡ ctx.old.block_uses }
{
    ctx.well_formed();
    for i in from..block.num_use(ctx) {
        ctx.well_formed();
        let (op, edge) = block.get_use(ctx, i);
        D::remove_successor_operand(op, ctx, edge, count);
    }
}

// The edge to the block before this index is lengthened too; or those from the index on, which were, lose what they
// got.
fn lengthen_next<D: LengthensEdges>(
    alloc: Global,
    block: Ptr<BasicBlock>,
    i: usize,
    count: usize,
    value: Value,
    ctx: &mut Context,
) -> Result<bool, OptError>
    requires block { IsBlock ctx.old.tree block }
    requires value { IsDefined ctx.old.tree value }
    requires some { 0 < i }
    requires index { i ≤ length (uses_of ctx.old.block_uses block) }
    requires lengthened { (t : Tree) × EdgesLengthened D.meaning D.shortened count value (drop i (uses_of
        ctx.old.block_uses block)) t ctx.old.tree }
    ensures ok { IfOk result (λ done. (t : Tree) → EdgesLengthened D.meaning D.shortened count value (drop i (uses_of
        ctx.old.block_uses block)) t ctx.old.tree → AreLengthened D.meaning D.shortened count value (drop (i - 1)
        (uses_of ctx.old.block_uses block)) t ctx.new.tree done) }
    ensures refused { OnErr result ((t : Tree) → EdgesLengthened D.meaning D.shortened count value (drop i (uses_of
        ctx.old.block_uses block)) t ctx.old.tree → ctx.new.tree ≡ t) }
    ensures memory { IsOkUnless result OptError.Memory }
    ensures block_uses { ctx.new.block_uses ≡ ctx.old.block_uses }
{
    ctx.well_formed();
    let (op, edge) = block.get_use(ctx, i - 1);
    match lengthen_edge::<D>(alloc, op, edge, count, value, ctx) {
        Ok(true) => Ok(true),
        Ok(false) => {
            shorten_edges::<D>(block, i, count, ctx);
            Ok(false)
        }
        Err(refusal) => {
            shorten_edges::<D>(block, i, count, ctx);
            Err(refusal)
        }
    }
}

// Each edge to the block, which forwards so many values, forwards this one too, behind them. Nothing changes where one
// of them forwards another number, or the dialect has no such branch.
fn lengthen_edges<D: LengthensEdges>(
    alloc: Global,
    block: Ptr<BasicBlock>,
    count: usize,
    value: Value,
    ctx: &mut Context,
) -> Result<bool, OptError>
    requires block { IsBlock ctx.old.tree block }
    requires value { IsDefined ctx.old.tree value }
    ensures ok { IfOk result (λ done. AreLengthened D.meaning D.shortened count value (uses_of ctx.old.block_uses block)
        ctx.old.tree ctx.new.tree done) }
    ensures refused { OnErr result (ctx.new.tree ≡ ctx.old.tree) }
    ensures memory { IsOkUnless result OptError.Memory }
    ensures block_uses { ctx.new.block_uses ≡ ctx.old.block_uses }
{
    ctx.well_formed();
    let mut i = block.num_use(ctx);
    while i > 0 {
        if !lengthen_next::<D>(alloc, block, i, count, value, ctx)? {
            return Ok(false);
        }
        i -= 1;
    }
    Ok(true)
}

// The block gets one argument more; or the edges to it, which got a value each behind so many others, lose it again.
fn push_argument<D: Dialect>(
    block: Ptr<BasicBlock>,
    count: usize,
    ctx: &mut Context,
) -> Result<Value, OptError>
    requires block { IsBlock ctx.old.tree block }
    requires lengthened { (value : ℕ) × (t : Tree) × EdgesLengthened D.meaning D.shortened count value (uses_of
        ctx.old.block_uses block) t ctx.old.tree }
    ensures argument { IfOk result (λ argument. argument ≡ length ctx.old.tree.definitions) }
    ensures pushed { OnOk result (ctx.new.tree ≡ argument_pushed ctx.old.tree block) }
    ensures refused { OnErr result ((value : ℕ) (t : Tree) → EdgesLengthened D.meaning D.shortened count value (uses_of
        ctx.old.block_uses block) t ctx.old.tree → ctx.new.tree ≡ t) }
    ensures memory { IsOkUnless result OptError.Memory }
{
    match BasicBlock::push_argument(ctx, block) {
        Ok(argument) => Ok(argument),
        Err(refusal) => {
            shorten_edges::<D>(block, 0, count, ctx);
            Err(OptError::from(refusal))
        }
    }
}

/// The block gets one argument more, behind the others, to which each edge to the block forwards the value. Answers the
/// argument, a new value that nothing uses yet. `None`, and nothing changes, where an operation that leads to the block
/// is no branch or forwards another number of values than the block has arguments, or where the dialect has no branch
/// that forwards one more there.
///
/// Asks that the block and the value are live, that the block is no entry of a region, and that each operation that
/// leads to it may use the value, as where its definition dominates the block. Errors: allocation failure, which
/// changes nothing. Cost: linear in the edges to the block and in the operands of their operations. Source: R. Cytron
/// and others, Efficiently Computing Static Single Assignment Form and the Control Dependence Graph, 1991 (a φ function
/// is added).
pub fn add_argument<D: LengthensEdges>(
    alloc: Global,
    block: Ptr<BasicBlock>,
    value: Value,
    ctx: &mut Context,
) -> Result<Option<Value>, OptError>
    requires block { IsBlock ctx.old.tree block }
    requires value { IsDefined ctx.old.tree value }
    requires no_entry { IsEntry ctx.old.tree block → ⊥ }
    requires may_use { (chosen : Head → Bool) (root k : ℕ) → IsFit (with_roots D.meaning chosen) ctx.old.tree root → In
        block (successors_of ctx.old.tree k) → MayUse ctx.old.tree root k value }
    ensures added { IfOk result (λ o. IfSome o (λ argument. IsArgumentAdded D.meaning D.shortened ctx.old.tree
        ctx.new.tree block value argument)) }
    ensures none { IfOk result (λ o. IfNone o (ctx.new.tree ≡ ctx.old.tree)) }
    ensures refused { OnErr result (ctx.new.tree ≡ ctx.old.tree) }
    ensures memory { IsOkUnless result OptError.Memory }
    ensures runs { KeepsAllRuns D.meaning ctx.old.tree ctx.new.tree }
    ensures runs_back { KeepsAllRuns D.meaning ctx.new.tree ctx.old.tree }
{
    ctx.well_formed();
    let count = block.num_argument(ctx);
    if !lengthen_edges::<D>(alloc, block, count, value, ctx)? {
        return Ok(None);
    }
    let pushed = push_argument::<D>(block, count, ctx);
    ctx.well_formed();
    Ok(Some(pushed?))
}
