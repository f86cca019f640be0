//! Branches whose edges are led to the ends of their chains.
ghost use Rattle.std.specs.Prelude.{◌≡◌, ◌↔◌, ◌≤◌, ◌++◌, [], ℕ, IfOk, OnOk, OnErr, IsSome, IsTrue, length, IsOkUnless};
ghost use Rattle.pliron_core.specs.declared.attrs.IRStatus.TheVariants.{Unchanged};
ghost use Rattle.pliron_core.specs.Changes.{IsSameTree};
ghost use Rattle.pliron_core.specs.Tree.{In, IsBlock, IsLive, results_of, regions_of, parent_of, block_parent_of, successors_of};
ghost use Rattle.pliron_laws.specs.Linked.{IsWellLinked};
ghost use Rattle.pliron_theory.specs.Change.{IsWholeChange};
ghost use Rattle.pliron_rewrite_blocks.specs.Links.{KeepsLinks};
ghost use Rattle.pliron_opt_edges.specs.Ends.{known_end, known_target_of, known_targets_of, AreKnownRightly};
ghost use Rattle.pliron_opt_edges.specs.Moved.{MovesEdges, MovesSome, LeavesNoChain};
ghost use Rattle.pliron_opt_edges.specs.MoveSteps.{branch_alone, branches_within, MovesOne};

use crate::chains::ChainEnds;
use pliron_core::{BasicBlock, Context, IRStatus, Operation, Ptr, Rewriter};
use pliron_dialect_edges::{BranchesAtOnce, lead_elsewhere};
use pliron_laws::{Dialect, OptError, Room};
use std::alloc::Global;

// Adds the operation, if it is a branch.
fn add_branch<D: Dialect>(
    op: Ptr<Operation>,
    ctx: &Context,
    branches: &mut Vec<Ptr<Operation>>,
) -> Result<(), OptError>
    requires { IsLive ctx.now.tree op }
    ensures ok { OnOk result (branches.new.items ≡ branches.old.items ++ branch_alone D.meaning.is_branch ctx.now.tree
        op) }
    ensures memory { IsOkUnless result OptError.Memory }
{
    if D::is_branch(op, ctx) {
        branches.push(op)?;
    }
    Ok(())
}

// The branches inside the root, in pre-order.
pub(crate) fn branches_inside<D: Dialect>(
    alloc: Global,
    root: Ptr<Operation>,
    ctx: &Context,
) -> Result<Vec<Ptr<Operation>>, OptError>
    requires { IsLive ctx.now.tree root }
    ensures ok { IfOk result (λ branches. branches.items ≡ branches_within D.meaning.is_branch ctx.now.tree root) }
    ensures memory { IsOkUnless result OptError.Memory }
{
    ctx.well_formed();
    let mut branches = Vec::new(alloc);
    let mut at = root.next_in_preorder(root, ctx);
    while let Some(op) = at {
        add_branch::<D>(op, ctx, &mut branches)?;
        at = op.next_in_preorder(root, ctx);
    }
    Ok(branches)
}

// Where an edge to the block is led.
fn target_of(block: Ptr<BasicBlock>, ends: &ChainEnds) -> Ptr<BasicBlock>
    ensures { result ≡ known_target_of ends.now block }
{
    match ends.find(block) {
        Some(Some(end)) => end,
        Some(None) => block,
        None => block,
    }
}

// Where the edges of the operation are led.
fn targets_of(
    alloc: Global,
    op: Ptr<Operation>,
    ctx: &Context,
    ends: &ChainEnds,
) -> Result<Vec<Ptr<BasicBlock>>, OptError>
    requires { IsLive ctx.now.tree op }
    ensures ok { IfOk result (λ targets. targets.items ≡ known_targets_of ends.now ctx.now.tree op) }
    ensures memory { IsOkUnless result OptError.Memory }
{
    let mut targets = Vec::new(alloc);
    for j in 0..op.num_successor(ctx) {
        targets.push(target_of(op.get_successor(ctx, j), ends))?;
    }
    Ok(targets)
}

// Whether these are the successors of the operation. Asks for as many.
fn are_successors(op: Ptr<Operation>, ctx: &Context, targets: &[Ptr<BasicBlock>]) -> bool
    requires live { IsLive ctx.now.tree op }
    requires long { length targets.now ≡ length (successors_of ctx.now.tree op) }
    ensures { IsTrue result ↔ (targets.now ≡ successors_of ctx.now.tree op) }
{
    for j in 0..targets.len() {
        if op.get_successor(ctx, j) != targets[j] {
            return false;
        }
    }
    true
}

// Leads the edges of one branch to the ends of their chains: all of them, or none on allocation failure.
fn move_one<R: Rewriter + Room>(
    alloc: Global,
    op: Ptr<Operation>,
    ctx: &mut Context,
    ends: &ChainEnds,
    rewriter: &mut R,
) -> Result<IRStatus, OptError>
    requires live { IsLive ctx.old.tree op }
    requires placed { IsSome (parent_of ctx.old.tree op) }
    requires targets { (b : ℕ) → In b (known_targets_of ends.now ctx.old.tree op) → IsBlock ctx.old.tree b }
    requires no_results { results_of ctx.old.tree op ≡ [] }
    requires no_regions { regions_of ctx.old.tree op ≡ [] }
    ensures ok { IfOk result (λ status. MovesOne ends.now op ctx.old.tree ctx.new.tree status) }
    ensures refused { OnErr result (IsSameTree ctx.old.tree ctx.new.tree) }
    ensures longer { length ctx.old.tree.operations ≤ length ctx.new.tree.operations }
    ensures memory { IsOkUnless result OptError.Memory }
{
    let targets = targets_of(alloc, op, ctx, ends)?;
    if are_successors(op, ctx, targets.as_slice()) {
        return Ok(IRStatus::Unchanged);
    }
    lead_elsewhere(alloc, op, ctx, &targets, rewriter)?;
    Ok(IRStatus::Changed)
}

// Leads the edges of these branches to the ends of their chains.
pub(crate) fn move_all<D: Dialect + BranchesAtOnce, R: Rewriter + Room>(
    alloc: Global,
    root: Ptr<Operation>,
    ctx: &mut Context,
    branches: &[Ptr<Operation>],
    ends: &ChainEnds,
    rewriter: &mut R,
) -> Result<IRStatus, OptError>
    requires live { IsLive ctx.old.tree root }
    requires linked { IsWellLinked D.meaning ctx.old.tree root }
    requires branches { branches.now ≡ branches_within D.meaning.is_branch ctx.old.tree root }
    requires known { AreKnownRightly D.meaning.is_branch ctx.old.tree ends.now }
    requires there { (k b : ℕ) → In k branches.now → In b (successors_of ctx.old.tree k) → IsSome (known_end ends.now
        b) }
    ensures change { IsWholeChange D.meaning ctx.old.tree ctx.new.tree root }
    ensures moved { OnOk result (MovesEdges D.meaning.is_branch root ctx.old.tree ctx.new.tree) }
    ensures none { OnOk result (LeavesNoChain D.meaning.is_branch ctx.new.tree root) }
    ensures accurate { IfOk result (λ status. (status ≡ Unchanged) ↔ (ctx.new.tree ≡ ctx.old.tree)) }
    ensures blocks { (b : ℕ) → block_parent_of ctx.new.tree b ≡ block_parent_of ctx.old.tree b }
    ensures links { KeepsLinks D.meaning ctx.old.tree ctx.new.tree }
    ensures refused { OnErr result (MovesSome D.meaning.is_branch root ctx.old.tree ctx.new.tree) }
    ensures memory { IsOkUnless result OptError.Memory }
{
    ctx.well_formed();
    let mut status = IRStatus::Unchanged;
    for i in 0..branches.len() {
        let moved = move_one::<R>(alloc, branches[i], ctx, ends, rewriter);
        ctx.well_formed();
        status |= moved?;
    }
    Ok(status)
}
