//! Which functions may take the place of a call.
ghost use Rattle.std.specs.Prelude.{◌≡◌, ◌↔◌, ℕ, [], None, Some, IsTrue, length};
ghost use Rattle.pliron_core.specs.Tree.{In, IsLive, IsBlock, IsRegion, IsDefined, operands_of, successors_of, results_of, block_parent_of, layout_of};
ghost use Rattle.pliron_core.specs.Reads.{next_of};
ghost use Rattle.pliron_laws.specs.Answers.{HeadPasses};
ghost use Rattle.pliron_dialect_calls.specs.Inlinable.{NeverLeaves};
ghost use Rattle.pliron_rewrite_calls.specs.Copying.{parts_of};
ghost use Rattle.pliron_opt_inline.specs.Copying.{FitsInCopy, EndsCopy, EndsCopyByHead, IsBlockCopyable, IsBlockCopyableByHead};
ghost use Rattle.pliron_rewrite_calls.specs.Inlining.{IsInlinable};
ghost use Rattle.pliron_opt_inline.specs.Callees.{IsInlinableByHead};

use pliron_core::{BasicBlock, Context, Def, Operation, Ptr, Region, Value};
use pliron_dialect_calls::InliningDialect;
use pliron_laws::edges::{is_directly_in, region_of};

// Whether the block is one of the region.
fn is_block_of(block: Ptr<BasicBlock>, region: Ptr<Region>, ctx: &Context) -> bool
    requires { IsBlock ctx.now.tree block }
    ensures { IsTrue result ↔ (block_parent_of ctx.now.tree block ≡ Some region) }
{
    region_of(ctx, block) == region
}

// Whether the value is an argument of a block of the region, or a result of an operation in one.
fn is_defined_in(value: Value, region: Ptr<Region>, ctx: &Context) -> bool
    requires { IsDefined ctx.now.tree value }
    ensures { IsTrue result ↔ In value (parts_of ctx.now.tree (layout_of ctx.now.tree region)).values }
{
    ctx.well_formed();
    match value.def(ctx) {
        Def::Result(op, _) => is_directly_in(ctx, op, region),
        Def::Argument(block, _) => is_block_of(block, region, ctx),
    }
}

// Whether the operation uses only values of the region.
fn uses_values_of(op: Ptr<Operation>, region: Ptr<Region>, ctx: &Context) -> bool
    requires { IsLive ctx.now.tree op }
    ensures { IsTrue result ↔ ((v : ℕ) → In v (operands_of ctx.now.tree op) →
        In v (parts_of ctx.now.tree (layout_of ctx.now.tree region)).values) }
{
    for i in 0..op.num_operand(ctx) {
        if !is_defined_in(op.get_operand(ctx, i), region, ctx) {
            return false;
        }
    }
    true
}

// Whether the operation leads only to blocks of the region.
fn leads_to_blocks_of(op: Ptr<Operation>, region: Ptr<Region>, ctx: &Context) -> bool
    requires { IsLive ctx.now.tree op }
    ensures { IsTrue result ↔ ((b : ℕ) → In b (successors_of ctx.now.tree op) →
        block_parent_of ctx.now.tree b ≡ Some region) }
{
    for i in 0..op.num_successor(ctx) {
        if !is_block_of(op.get_successor(ctx, i), region, ctx) {
            return false;
        }
    }
    true
}

// Whether the operation has so many operands and no results.
fn has_counts(op: Ptr<Operation>, operands: usize, ctx: &Context) -> bool
    requires { IsLive ctx.now.tree op }
    ensures { IsTrue result ↔ ((length (operands_of ctx.now.tree op) ≡ operands) × (results_of ctx.now.tree op ≡ [])) }
{
    if op.num_operand(ctx) != operands {
        return false;
    }
    op.num_result(ctx) == 0
}

// Whether the operation may end a block that is copied, where the call has so many results.
fn may_end<D: InliningDialect>(op: Ptr<Operation>, results: usize, ctx: &Context) -> bool
    requires { IsLive ctx.now.tree op }
    ensures exact { IsTrue result ↔ EndsCopyByHead D.returns D.stays D.closes ctx.now.tree results op }
    ensures ends { IsTrue result → EndsCopy D.meaning D.returns ctx.now.tree results op }
{
    if D::is_return(op, ctx) {
        return has_counts(op, results, ctx);
    }
    if !D::never_leaves(op, ctx) {
        return false;
    }
    D::never_gives(op, ctx)
}

// Whether the operation, the last of its block or not, may stand there.
fn may_stand<D: InliningDialect>(op: Ptr<Operation>, results: usize, ctx: &Context) -> bool
    requires { IsLive ctx.now.tree op }
    ensures last { next_of ctx.now.tree op ≡ None → IsTrue result
        ↔ EndsCopyByHead D.returns D.stays D.closes ctx.now.tree results op }
    ensures ends { next_of ctx.now.tree op ≡ None → IsTrue result →
        EndsCopy D.meaning D.returns ctx.now.tree results op }
    ensures stays { (j : ℕ) → next_of ctx.now.tree op ≡ Some j →
        IsTrue result ↔ HeadPasses D.stays ctx.now.tree op }
    ensures leaves { (j : ℕ) → next_of ctx.now.tree op ≡ Some j →
        IsTrue result → NeverLeaves D.meaning ctx.now.tree op }
{
    match op.get_next(ctx) {
        Some(_) => D::never_leaves(op, ctx),
        None => may_end::<D>(op, results, ctx),
    }
}

// Whether the operation, in a block of the region, may be copied with it.
fn fits_in_copy<D: InliningDialect>(
    op: Ptr<Operation>,
    region: Ptr<Region>,
    results: usize,
    ctx: &Context,
) -> bool
    requires { IsLive ctx.now.tree op }
    ensures exact { IsTrue result ↔ FitsInCopy (EndsCopyByHead D.returns D.stays D.closes ctx.now.tree results)
        (λ k. HeadPasses D.stays ctx.now.tree k) ctx.now.tree region op }
    ensures fits { IsTrue result → FitsInCopy (EndsCopy D.meaning D.returns ctx.now.tree results)
        (NeverLeaves D.meaning ctx.now.tree) ctx.now.tree region op }
{
    if op.num_region(ctx) != 0 {
        return false;
    }
    if !uses_values_of(op, region, ctx) {
        return false;
    }
    if !leads_to_blocks_of(op, region, ctx) {
        return false;
    }
    may_stand::<D>(op, results, ctx)
}

// Whether the block of the region may be copied.
fn may_copy_block<D: InliningDialect>(
    block: Ptr<BasicBlock>,
    region: Ptr<Region>,
    results: usize,
    ctx: &Context,
) -> bool
    requires { IsBlock ctx.now.tree block }
    ensures exact { IsTrue result
        ↔ IsBlockCopyableByHead D.returns D.stays D.closes ctx.now.tree results region block }
    ensures copyable { IsTrue result → IsBlockCopyable D.meaning D.returns ctx.now.tree results region block }
{
    ctx.well_formed();
    let Some(first) = block.get_head(ctx) else {
        return false;
    };
    let mut at = Some(first);
    while let Some(op) = at {
        if !fits_in_copy::<D>(op, region, results, ctx) {
            return false;
        }
        at = op.get_next(ctx);
    }
    true
}

// Whether all blocks of the region may be copied.
fn may_copy_region<D: InliningDialect>(region: Ptr<Region>, results: usize, ctx: &Context) -> bool
    requires { IsRegion ctx.now.tree region }
    ensures exact { IsTrue result ↔ ((b : ℕ) → block_parent_of ctx.now.tree b ≡ Some region →
        IsBlockCopyableByHead D.returns D.stays D.closes ctx.now.tree results region b) }
    ensures copyable { IsTrue result → (b : ℕ) → block_parent_of ctx.now.tree b ≡ Some region →
        IsBlockCopyable D.meaning D.returns ctx.now.tree results region b }
{
    ctx.well_formed();
    let mut at = region.get_head(ctx);
    while let Some(block) = at {
        if !may_copy_block::<D>(block, region, results, ctx) {
            return false;
        }
        at = block.get_next(ctx);
    }
    true
}

/// Whether a call with so many operands and results may be inlined where it calls this operation, as far as that is the
/// callee's to say: it is a function with a name and one region, whose entry takes as many values as the call has
/// operands. What is inside names values and blocks of the region alone, has no regions, and never leaves but by returns of
/// as many values as the call has results, at the ends of blocks; no block is left by falling off its end.
///
/// It is exact in what the dialect answers of heads. Where it says yes the operations do so (`inlinable`).
///
/// Asks that the operation is live (`is_live` tests it). Cost: one step for each block and operation of the region, and for
/// each of their operands and successors; and what the dialect's answers cost. Takes no memory.
pub fn may_be_inlined<D: InliningDialect>(
    callee: Ptr<Operation>,
    operands: usize,
    results: usize,
    ctx: &Context,
) -> bool
    requires { IsLive ctx.now.tree callee }
    ensures exact { IsTrue result ↔ IsInlinableByHead D.convention.symbol_of D.returns D.stays D.closes ctx.now.tree
        callee operands results }
    ensures inlinable { IsTrue result → IsInlinable D.meaning D.returns ctx.now.tree callee operands results }
{
    ctx.well_formed();
    let Some(_name) = D::symbol_name(callee, ctx) else {
        return false;
    };
    if callee.num_region(ctx) != 1 {
        return false;
    }
    let region = callee.get_region(ctx, 0);
    let Some(entry) = region.get_head(ctx) else {
        return false;
    };
    if entry.num_argument(ctx) != operands {
        return false;
    }
    may_copy_region::<D>(region, results, ctx)
}
