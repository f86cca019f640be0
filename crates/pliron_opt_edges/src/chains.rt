//! Where chains of blocks that only pass on end.
//!
//! A chain is walked until it comes to a block that does more, or of which it is known where its chain ends. Blocks on the
//! way are known to end nowhere until then, so a walk stops where it comes to its own way: there is a ring.
ghost use Rattle.std.specs.Prelude.{◌≡◌, [], ◌∷◌, ℕ, None, Some, IfOk, OnOk, MatchOption, IfSome, IsSome, IsOkUnless, cond};
ghost use Rattle.pliron_core.specs.Tree.{In, IsBlock, IsLive, body_of, successors_of};
ghost use Rattle.pliron_laws.specs.Tree.{is_one_key};
ghost use Rattle.pliron_opt_edges.specs.Chains.{PassesOn};
ghost use Rattle.pliron_opt_edges.specs.Ends.{known_end, AreKnownRightly, KnowsMoreEnds, IsWalked};

use indexmap::IndexMap;
use pliron_core::{BasicBlock, Context, Operation, Ptr};
use pliron_laws::{Dialect, OptError};
use std::alloc::Global;

/// Where the chains from blocks that only pass on end.
#[derive(Drop)]
pub(crate) struct ChainEnds {
    ends: IndexMap<Ptr<BasicBlock>, Option<Ptr<BasicBlock>>>,
}

impl ChainEnds {
    // Nothing is known.
    fn new(alloc: Global) -> ChainEnds
        ensures { (block : ℕ) → known_end result block ≡ None }
    {
        ChainEnds {
            ends: IndexMap::new(alloc),
        }
    }

    // What is known of the block: where its chain ends, or that it ends nowhere.
    pub(crate) fn find(&self, block: Ptr<BasicBlock>) -> Option<Option<Ptr<BasicBlock>>>
        ensures { result ≡ known_end self.now block }
    {
        self.ends.get(&block).copied()
    }

    // This is known of the block from now on.
    fn put(&mut self, block: Ptr<BasicBlock>, end: Option<Ptr<BasicBlock>>) -> Result<(), OptError>
        ensures put { OnOk result ((b : ℕ) → known_end self.new b ≡ cond (is_one_key block b) (Some end) (known_end
            self.old b)) }
        ensures memory { IsOkUnless result OptError.Memory }
    {
        self.ends.insert(block, end)?;
        Ok(())
    }
}

// The operation of the block, if it has no other.
fn only_operation(block: Ptr<BasicBlock>, ctx: &Context) -> Option<Ptr<Operation>>
    requires { IsBlock ctx.now.tree block }
    ensures found { MatchOption result ((k : ℕ) → body_of ctx.now.tree block ≡ k ∷ [] → ⊥)
        (λ k. body_of ctx.now.tree block ≡ k ∷ []) }
    ensures liveness { IfSome result (λ k. IsLive ctx.now.tree k) }
{
    ctx.well_formed();
    let Some(first) = block.get_head(ctx) else {
        return None;
    };
    let Some(last) = block.get_tail(ctx) else {
        return None;
    };
    if first == last {
        return Some(first);
    }
    None
}

// The block that this one only passes on to, if it does nothing else.
fn next_block<D: Dialect>(block: Ptr<BasicBlock>, ctx: &Context) -> Option<Ptr<BasicBlock>>
    requires { IsBlock ctx.now.tree block }
    ensures passes_on { MatchOption result ((c : ℕ) → PassesOn D.meaning.is_branch ctx.now.tree block c → ⊥)
        (λ c. PassesOn D.meaning.is_branch ctx.now.tree block c) }
    ensures liveness { IfSome result (λ c. IsBlock ctx.now.tree c) }
{
    ctx.well_formed();
    if block.num_argument(ctx) != 0 {
        return None;
    }
    let Some(jump) = only_operation(block, ctx) else {
        return None;
    };
    if jump.num_operand(ctx) != 0 {
        return None;
    }
    if jump.num_successor(ctx) != 1 {
        return None;
    }
    if !D::is_branch(jump, ctx) {
        return None;
    }
    Some(jump.get_successor(ctx, 0))
}

// Walks from the block until it is known where its chain ends, and answers that. The blocks on the path are known to end
// nowhere so far.
fn walk<D: Dialect>(
    from: Ptr<BasicBlock>,
    ctx: &Context,
    ends: &mut ChainEnds,
    path: &mut Vec<Ptr<BasicBlock>>,
) -> Result<Option<Ptr<BasicBlock>>, OptError>
    requires block { IsBlock ctx.now.tree from }
    requires known { AreKnownRightly D.meaning.is_branch ctx.now.tree ends.old }
    requires begun { path.old.items ≡ [] }
    ensures walked { IfOk result (λ end. IsWalked D.meaning.is_branch ctx.now.tree ends.new path.new.items from end) }
    ensures more { OnOk result (KnowsMoreEnds ends.old ends.new) }
    ensures memory { IsOkUnless result OptError.Memory }
{
    ctx.well_formed();
    let mut at = from;
    'steps: for _ in 0..usize::MAX {
        if let Some(end) = ends.find(at) {
            return Ok(end);
        }
        ends.put(at, None)?;
        path.push(at)?;
        match next_block::<D>(at, ctx) {
            Some(next) => at = next,
            None => return Ok(Some(at)),
        }
    }
    Err(OptError::Memory)
}

// The chains from all blocks on the path end here.
fn fill<D: Dialect>(
    from: Ptr<BasicBlock>,
    ctx: &Context,
    ends: &mut ChainEnds,
    path: &[Ptr<BasicBlock>],
    end: Ptr<BasicBlock>,
) -> Result<(), OptError>
    requires walked { IsWalked D.meaning.is_branch ctx.now.tree ends.old path.now from (Some end) }
    ensures known { OnOk result (AreKnownRightly D.meaning.is_branch ctx.now.tree ends.new) }
    ensures there { OnOk result (IsSome (known_end ends.new from)) }
    ensures more { OnOk result (KnowsMoreEnds ends.old ends.new) }
    ensures memory { IsOkUnless result OptError.Memory }
{
    let _ = from.is_live(ctx);
    for i in 0..path.len() {
        ends.put(path[i], Some(end))?;
    }
    Ok(())
}

// From now on it is known of the block where its chain ends.
fn find_end<D: Dialect>(
    alloc: Global,
    block: Ptr<BasicBlock>,
    ctx: &Context,
    ends: &mut ChainEnds,
) -> Result<(), OptError>
    requires block { IsBlock ctx.now.tree block }
    requires known { AreKnownRightly D.meaning.is_branch ctx.now.tree ends.old }
    ensures known { OnOk result (AreKnownRightly D.meaning.is_branch ctx.now.tree ends.new) }
    ensures there { OnOk result (IsSome (known_end ends.new block)) }
    ensures more { OnOk result (KnowsMoreEnds ends.old ends.new) }
    ensures memory { IsOkUnless result OptError.Memory }
{
    let mut path = Vec::new(alloc);
    match walk::<D>(block, ctx, ends, &mut path)? {
        Some(end) => fill::<D>(block, ctx, ends, path.as_slice(), end),
        None => Ok(()),
    }
}

// From now on it is known of each successor of the operation where its chain ends.
fn find_ends_of<D: Dialect>(
    alloc: Global,
    op: Ptr<Operation>,
    ctx: &Context,
    ends: &mut ChainEnds,
) -> Result<(), OptError>
    requires live { IsLive ctx.now.tree op }
    requires known { AreKnownRightly D.meaning.is_branch ctx.now.tree ends.old }
    ensures known { OnOk result (AreKnownRightly D.meaning.is_branch ctx.now.tree ends.new) }
    ensures there { OnOk result ((b : ℕ) → In b (successors_of ctx.now.tree op) → IsSome (known_end ends.new b)) }
    ensures more { OnOk result (KnowsMoreEnds ends.old ends.new) }
    ensures memory { IsOkUnless result OptError.Memory }
{
    ctx.well_formed();
    for j in 0..op.num_successor(ctx) {
        find_end::<D>(alloc, op.get_successor(ctx, j), ctx, ends)?;
    }
    Ok(())
}

// Where the chains from the successors of these operations end.
pub(crate) fn find_ends<D: Dialect>(
    alloc: Global,
    ops: &[Ptr<Operation>],
    ctx: &Context,
) -> Result<ChainEnds, OptError>
    requires { (k : ℕ) → In k ops.now → IsLive ctx.now.tree k }
    ensures known { IfOk result (λ ends. AreKnownRightly D.meaning.is_branch ctx.now.tree ends) }
    ensures there { IfOk result (λ ends. (k b : ℕ) → In k ops.now → In b (successors_of ctx.now.tree k) → IsSome
        (known_end ends b)) }
    ensures memory { IsOkUnless result OptError.Memory }
{
    let mut ends = ChainEnds::new(alloc);
    for i in 0..ops.len() {
        find_ends_of::<D>(alloc, ops[i], ctx, &mut ends)?;
    }
    Ok(ends)
}
