//! A header that is copied for the operations that enter its loop.
ghost use Rattle.std.specs.Prelude.{◌≡◌, ◌+◌, ◌≤◌, ℕ, List, [], ◌∷◌, Some, IfOk, OnOk, OnErr, length, map, IsOkUnless};
ghost use Rattle.pliron_core.specs.Changes.{IsSameTree};
ghost use Rattle.pliron_core.specs.Tree.{In, IsLive, successors_of};
ghost use Rattle.pliron_theory.specs.Keeps.{KeepsAllRuns};
ghost use Rattle.pliron_rewrite_copies.specs.Copies.{Originals};
ghost use Rattle.pliron_rewrite_rotation.specs.Entering.{MayCopyHeader, led_target};
ghost use Rattle.pliron_rewrite_rotation.specs.HeaderCopied.{IsHeaderCopied, KeepsToHolders};
ghost use Rattle.pliron_rewrite_rotation.specs.HeaderSteps.{EnteredHeader, copy_of, IsEnteredHeader, IsLeadingIn, IsLeadingStopped, AreLeadingIn, IsCopyingStopped};

use pliron_core::{BasicBlock, Context, Operation, Ptr, Region, Rewriter};
use pliron_dialect_edges::lead_elsewhere;
use pliron_laws::{HasMeaning, OptError, Room};
use pliron_rewrite_calls::copy_blocks;
use pliron_rewrite_copies::closed_blocks_are_copied;
use std::alloc::Global;

// Where an edge to the block leads after.
fn target_of(
    block: Ptr<BasicBlock>,
    header: Ptr<BasicBlock>,
    copy: Ptr<BasicBlock>,
) -> Ptr<BasicBlock>
    ensures { result ≡ led_target header copy block }
{
    if block == header { copy } else { block }
}

// Where the edges of the operation lead after.
fn targets_of(
    alloc: Global,
    op: Ptr<Operation>,
    header: Ptr<BasicBlock>,
    copy: Ptr<BasicBlock>,
    ctx: &Context,
) -> Result<Vec<Ptr<BasicBlock>>, OptError>
    requires { IsLive ctx.now.tree op }
    ensures ok { IfOk result (λ targets. targets.items ≡ map (led_target header copy) (successors_of ctx.now.tree op)) }
    ensures memory { IsOkUnless result OptError.Memory }
{
    let mut targets = Vec::new(alloc);
    for j in 0..op.num_successor(ctx) {
        targets.push(target_of(op.get_successor(ctx, j), header, copy))?;
    }
    Ok(targets)
}

// The edges of the operation to the header lead to the copy, if it wasn't led there before: all of them, or none on
// allocation failure.
fn lead_in<R: Rewriter + Room>(
    alloc: Global,
    op: Ptr<Operation>,
    header: Ptr<BasicBlock>,
    copy: Ptr<BasicBlock>,
    ctx: &mut Context,
    rewriter: &mut R,
) -> Result<(), OptError>
    ghost x: { EnteredHeader }
    requires entered { IsEnteredHeader x }
    requires entering { In op x.entering }
    requires header { x.header ≡ header }
    requires copy { copy_of x ≡ copy }
    requires leading { IsLeadingIn x ctx.old.tree }
    ensures leading { OnOk result (IsLeadingIn x ctx.new.tree) }
    ensures not_live { OnOk result (IsLive ctx.new.tree op → ⊥) }
    ensures live_before { OnOk result ((k : ℕ) → In k x.entering → IsLive ctx.new.tree k → IsLive ctx.old.tree k) }
    ensures bound { OnOk result (length ctx.new.tree.operations ≤ length ctx.old.tree.operations + 1) }
    ensures refused { OnErr result (IsLeadingStopped x ctx.new.tree) }
    ensures memory { IsOkUnless result OptError.Memory }
{
    ctx.well_formed();
    if !op.is_live(ctx) {
        return Ok(());
    }
    let targets = targets_of(alloc, op, header, copy, ctx)?;
    let led = lead_elsewhere(alloc, op, ctx, &targets, rewriter);
    ctx.well_formed();
    led?;
    Ok(())
}

// The edges of all entering operations to the header lead to the copy.
fn lead_all_in<R: Rewriter + Room>(
    alloc: Global,
    entering: &[Ptr<Operation>],
    header: Ptr<BasicBlock>,
    copy: Ptr<BasicBlock>,
    ctx: &mut Context,
    rewriter: &mut R,
) -> Result<(), OptError>
    ghost x: { EnteredHeader }
    requires entered { IsEnteredHeader x }
    requires entering { x.entering ≡ entering.now }
    requires header { x.header ≡ header }
    requires copy { copy_of x ≡ copy }
    requires leading { IsLeadingIn x ctx.old.tree }
    ensures leading { OnOk result (IsLeadingIn x ctx.new.tree) }
    ensures none_live { OnOk result ((k : ℕ) → In k x.entering → IsLive ctx.new.tree k → ⊥) }
    ensures bound { OnOk result (length ctx.new.tree.operations ≤ length ctx.old.tree.operations + length
        entering.now) }
    ensures refused { OnErr result (IsLeadingStopped x ctx.new.tree) }
    ensures memory { IsOkUnless result OptError.Memory }
{
    ctx.well_formed();
    for i in 0..entering.len() {
        lead_in(alloc, entering[i], header, copy, ctx, rewriter)?;
        ctx.well_formed();
    }
    Ok(())
}

// The header is copied, and the entering operations lead to the copy.
fn copy_and_lead_in<R: Rewriter + Room>(
    alloc: Global,
    header: Ptr<BasicBlock>,
    region: Ptr<Region>,
    entering: &[Ptr<Operation>],
    ctx: &mut Context,
    rewriter: &mut R,
) -> Result<Ptr<BasicBlock>, OptError>
    ghost x: { EnteredHeader }
    requires entered { IsEnteredHeader x }
    requires tree { x.tree ≡ ctx.old.tree }
    requires header { x.header ≡ header }
    requires region { x.region ≡ region }
    requires entering { x.entering ≡ entering.now }
    ensures leading { IfOk result (λ copy. AreLeadingIn x ctx.new.tree copy) }
    ensures refused { OnErr result (IsCopyingStopped x ctx.new.tree) }
    ensures memory { IsOkUnless result OptError.Memory }
{
    ctx.well_formed();
    let blocks = vec![in alloc; header]?;
    let copies = copy_blocks(alloc, blocks.as_slice(), region, ctx, rewriter)?;
    ctx.well_formed();
    let Some(copy) = copies.copy_of_block(header) else {
        unreachable!()
    };
    lead_all_in(alloc, entering, header, copy, ctx, rewriter)?;
    Ok(copy)
}

/// The header is copied, and each of these operations leads to the copy where it led to the header: another operation with
/// its head and operands stands in its place. Answers the copy, the last block of the header's region.
///
/// Asks that the header is closed: what it defines is used in it alone, as after `close_header`; that no operation of it
/// has regions or leads to it; and that each of the operations ends another block of its region and has neither results nor
/// regions. It takes room before each change. Errors: allocation failure. The header is then not copied, or some of the
/// operations lead to the copy already. Runs are kept in any case. Cost: linear in the header, and in the operands and
/// edges of these operations. Source: S. S. Muchnick, Advanced Compiler Design and Implementation, 1997, chapter 18 (loop
/// inversion).
pub fn copy_header<D: HasMeaning, R: Rewriter + Room>(
    alloc: Global,
    header: Ptr<BasicBlock>,
    entering: &[Ptr<Operation>],
    ctx: &mut Context,
    rewriter: &mut R,
) -> Result<Ptr<BasicBlock>, OptError>
    requires { MayCopyHeader ctx.old.tree header entering.now }
    ensures copied { IfOk result (λ copy. (o : Originals) × IsHeaderCopied ctx.old.tree ctx.new.tree o header copy
        entering.now) }
    ensures holders { KeepsToHolders D.meaning ctx.old.tree ctx.new.tree header }
    ensures memory { IsOkUnless result OptError.Memory }
    ensures runs { KeepsAllRuns D.meaning ctx.old.tree ctx.new.tree }
{
    closed_blocks_are_copied();
    ctx.well_formed();
    let Some(region) = header.get_parent_region(ctx) else {
        unreachable!()
    };
    let copied = copy_and_lead_in(alloc, header, region, entering, ctx, rewriter);
    ctx.well_formed();
    Ok(copied?)
}
