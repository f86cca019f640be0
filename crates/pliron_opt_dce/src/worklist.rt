//! The worklist, in rounds: what lost a use in one round is visited in the next one.
//!
//! In each round the arguments are removed before the operations, the last one first. So those of one block are
//! removed side by side, in whatever order they lost their uses, and so are the operands that were forwarded to
//! them; what a block or a branch loses side by side costs one step each. Removals in other orders cost more,
//! and get an index (`operand_indexing`).
//!
//! The operations around what lost a use are visited once nothing else is ready, each once for all the uses
//! that what is inside it lost until then. For a visit of one scans what is inside it. A use that is found to
//! keep one alive is tested for those around that one too, by one climb (`around`); only what no such use holds is
//! visited.
ghost use Rattle.std.specs.Prelude.{◌≡◌, ◌↔◌, ◌++◌, ◌∷◌, [], true, false, map, IfOk, OnOk, IfErr, IfSome, IfNone, IsTrue, IsPermutation, ℕ, Some};
ghost use Rattle.pliron_core.specs.declared.context.Def.TheVariants.{Result as AResult, Argument as AnArgument};
ghost use Rattle.pliron_core.specs.Tree.{In, IsLive, IsDefined, definition_of};
ghost use Rattle.pliron_laws.specs.Linked.{IsWellLinked};
ghost use Rattle.pliron_opt_dce.specs.Dead.{Item, Op, Arg};
ghost use Rattle.pliron_opt_dce.specs.Readiness.{IsReady, Among, AreRevisited};
ghost use Rattle.pliron_opt_dce.specs.Predecessors.{mark_of_block, AreMarked};
ghost use Rattle.pliron_opt_dce.specs.declared.worklist.DeadCandidate.TheVariants.{Operation as AnOperation};
ghost use Rattle.pliron_opt_dce.specs.Worklist.{item_of, items_of, pending_candidates, HasReady, KeepsReady, AreClosedUnderNesting, AddsParents, IsAroundMaker};

use crate::around::AroundSet;
use crate::predecessors::Predecessors;
use crate::ready::{is_ready_argument, is_ready_operation, parent_operation_of};
use crate::scan_positions::ScanPositions;
use pliron_core::{Context, Def, Operation, Ptr, Value};
use pliron_laws::Dialect;
use std::alloc::{AllocError, Global};

// A candidate: what may be dead.
#[derive(Clone, Copy, PartialEq, Eq)]
pub(crate) enum DeadCandidate {
    Operation(Ptr<Operation>),
    Argument(Value),
}

// The candidates that are still to be visited.
#[derive(Drop)]
pub(crate) struct Worklist {
    // in this round, the last one first
    pub(crate) round: Vec<DeadCandidate>,
    // in the next one
    pub(crate) later: Vec<DeadCandidate>,
    // once nothing else is ready: operations around what lost a use, and all that are around them
    pub(crate) around: AroundSet,
    // where scans of operations resume
    pub(crate) scans: ScanPositions,
}

impl Worklist {
    // All these are visited in the first round.
    pub(crate) fn new(
        alloc: Global,
        candidates: Vec<DeadCandidate>,
        scans: ScanPositions,
    ) -> Worklist
        ensures round { result.round.items ≡ candidates.items }
        ensures later { result.later.items ≡ [] }
        ensures around { result.around.ops.items ≡ [] }
    {
        Worklist {
            round: candidates,
            later: Vec::new(alloc),
            around: AroundSet::new(alloc),
            scans,
        }
    }

    // The candidate is visited in the next round.
    #[inline(always)]
    fn add(&mut self, candidate: DeadCandidate) -> Result<(), AllocError>
        ensures kept { OnOk result ((x : Item) → Among x (items_of (pending_candidates self.old)) → Among x
            (items_of (pending_candidates self.new))) }
        ensures added { OnOk result (Among (item_of candidate) (items_of (pending_candidates self.new))) }
        ensures around { OnOk result (self.new.around.ops.items ≡ self.old.around.ops.items) }
    {
        self.later.push(candidate)?;
        Ok(())
    }
}

// Whether the candidate may be erased at once.
#[inline(always)]
fn is_ready<D: Dialect>(
    candidate: &DeadCandidate,
    scans: &mut ScanPositions,
    predecessors: &Predecessors,
    root: Ptr<Operation>,
    ctx: &Context,
) -> bool
    requires linked { IsWellLinked D.meaning ctx.now.tree root }
    requires marked { AreMarked D.meaning ctx.now.tree root (λ b. mark_of_block predecessors.now b) }
    ensures { IsTrue result ↔ IsReady D.meaning D.side_effects D.removable ctx.now.tree root (item_of candidate.now) }
{
    match *candidate {
        DeadCandidate::Operation(op) => is_ready_operation::<D>(op, scans, root, ctx),
        DeadCandidate::Argument(value) => is_ready_argument::<D>(value, predecessors, root, ctx),
    }
}

// The last one of this round that is ready; those after it are not, and are dropped.
#[inline(always)]
fn next_in_round<D: Dialect>(
    round: &mut Vec<DeadCandidate>,
    scans: &mut ScanPositions,
    predecessors: &Predecessors,
    root: Ptr<Operation>,
    ctx: &Context,
) -> Option<DeadCandidate>
    requires linked { IsWellLinked D.meaning ctx.now.tree root }
    requires marked { AreMarked D.meaning ctx.now.tree root (λ b. mark_of_block predecessors.now b) }
    ensures some { IfSome result (λ next. IsReady D.meaning D.side_effects D.removable ctx.now.tree root
        (item_of next)) }
    ensures kept { IfSome result (λ next. KeepsReady D.meaning D.side_effects D.removable ctx.now.tree root
        round.old.items (round.new.items ++ next ∷ [])) }
    ensures none { IfNone result (KeepsReady D.meaning D.side_effects D.removable ctx.now.tree root round.old.items
        []) }
    ensures empty { IfNone result (round.new.items ≡ []) }
{
    while let Some(next) = round.pop() {
        if is_ready::<D>(&next, scans, predecessors, root, ctx) {
            return Some(next);
        }
    }
    None
}

// The arguments last, in the order in which they were created: a block is created with its arguments.
fn put_arguments_last(candidates: &mut Vec<DeadCandidate>) -> Result<(), AllocError>
    ensures { IsPermutation candidates.old.items candidates.new.items }
{
    candidates.sort_by_key(|candidate| match candidate {
        DeadCandidate::Operation(_) => None,
        DeadCandidate::Argument(value) => Some(value.key()),
    })
}

// Those of the candidates that are ready come into the round.
fn push_ready<D: Dialect>(
    round: &mut Vec<DeadCandidate>,
    candidates: &[DeadCandidate],
    scans: &mut ScanPositions,
    predecessors: &Predecessors,
    root: Ptr<Operation>,
    ctx: &Context,
) -> Result<(), AllocError>
    requires linked { IsWellLinked D.meaning ctx.now.tree root }
    requires marked { AreMarked D.meaning ctx.now.tree root (λ b. mark_of_block predecessors.now b) }
    ensures { OnOk result (KeepsReady D.meaning D.side_effects D.removable ctx.now.tree root
        (candidates.now ++ round.old.items) round.new.items) }
{
    for candidate in candidates {
        if is_ready::<D>(candidate, scans, predecessors, root, ctx) {
            round.push(*candidate)?;
        }
    }
    Ok(())
}

// What is listed for the next round and is ready comes into this one.
fn begin_round<D: Dialect>(
    worklist: &mut Worklist,
    predecessors: &Predecessors,
    root: Ptr<Operation>,
    ctx: &Context,
) -> Result<(), AllocError>
    requires linked { IsWellLinked D.meaning ctx.now.tree root }
    requires marked { AreMarked D.meaning ctx.now.tree root (λ b. mark_of_block predecessors.now b) }
    ensures kept { OnOk result (KeepsReady D.meaning D.side_effects D.removable ctx.now.tree root
        (pending_candidates worklist.old) (pending_candidates worklist.new)) }
    ensures later { OnOk result (worklist.new.later.items ≡ []) }
    ensures around { OnOk result (worklist.new.around.ops.items ≡ worklist.old.around.ops.items) }
{
    push_ready::<D>(
        &mut worklist.round,
        &worklist.later,
        &mut worklist.scans,
        predecessors,
        root,
        ctx,
    )?;
    worklist.later.clear();
    put_arguments_last(&mut worklist.round)?;
    Ok(())
}

// The next one of this round that is ready.
#[inline(always)]
fn next_of<D: Dialect>(
    worklist: &mut Worklist,
    predecessors: &Predecessors,
    root: Ptr<Operation>,
    ctx: &Context,
) -> Option<DeadCandidate>
    requires linked { IsWellLinked D.meaning ctx.now.tree root }
    requires marked { AreMarked D.meaning ctx.now.tree root (λ b. mark_of_block predecessors.now b) }
    ensures some { IfSome result (λ next. IsReady D.meaning D.side_effects D.removable ctx.now.tree root
        (item_of next)) }
    ensures kept { IfSome result (λ next. KeepsReady D.meaning D.side_effects D.removable ctx.now.tree root
        (pending_candidates worklist.old) (pending_candidates worklist.new ++ next ∷ [])) }
    ensures none { IfNone result (KeepsReady D.meaning D.side_effects D.removable ctx.now.tree root
        (pending_candidates worklist.old) (pending_candidates worklist.new)) }
    ensures empty { IfNone result (worklist.new.round.items ≡ []) }
    ensures later { worklist.new.later ≡ worklist.old.later }
    ensures around { worklist.new.around ≡ worklist.old.around }
{
    next_in_round::<D>(
        &mut worklist.round,
        &mut worklist.scans,
        predecessors,
        root,
        ctx,
    )
}

// Those of these operations that no use is found to keep alive come into the round. Each comes after what is inside
// it, so one use that is found mostly answers for the next ones too.
fn push_unheld<D: Dialect>(
    round: &mut Vec<DeadCandidate>,
    ops: &[Ptr<Operation>],
    scans: &mut ScanPositions,
    ctx: &Context,
) -> Result<(), AllocError>
    ensures { OnOk result ((root : ℕ) → KeepsReady D.meaning D.side_effects D.removable ctx.now.tree root
        (map (λ k. AnOperation k) ops.now ++ round.old.items) round.new.items) }
{
    let mut held = None;
    for op in ops {
        held = scans.reach_from::<D>(held, *op, ctx);
        if held.is_none() {
            round.push(DeadCandidate::Operation(*op))?;
        }
    }
    Ok(())
}

// The operations around what lost uses come into the round, but for those that are found to be kept alive.
fn begin_around<D: Dialect>(worklist: &mut Worklist, ctx: &Context) -> Result<(), AllocError>
    ensures kept { OnOk result ((root : ℕ) → KeepsReady D.meaning D.side_effects D.removable ctx.now.tree root
        (pending_candidates worklist.old) (pending_candidates worklist.new)) }
    ensures later { worklist.new.later ≡ worklist.old.later }
    ensures around { OnOk result (worklist.new.around.ops.items ≡ []) }
{
    push_unheld::<D>(
        &mut worklist.round,
        &worklist.around.ops,
        &mut worklist.scans,
        ctx,
    )?;
    worklist.around.clear();
    Ok(())
}

// The next one that is ready: of this round, of the next one, or around what lost uses. What is visited and not
// ready is dropped.
pub(crate) fn next_ready<D: Dialect>(
    worklist: &mut Worklist,
    predecessors: &Predecessors,
    root: Ptr<Operation>,
    ctx: &Context,
) -> Result<Option<DeadCandidate>, AllocError>
    requires linked { IsWellLinked D.meaning ctx.now.tree root }
    requires marked { AreMarked D.meaning ctx.now.tree root (λ b. mark_of_block predecessors.now b) }
    requires all { HasReady D.meaning D.side_effects D.removable ctx.now.tree root (pending_candidates worklist.old) }
    requires closed { AreClosedUnderNesting ctx.now.tree worklist.old.around.ops.items }
    ensures some { IfOk result (λ found. IfSome found (λ next. IsReady D.meaning D.side_effects D.removable ctx.now.tree
        root (item_of next))) }
    ensures all { IfOk result (λ found. IfSome found (λ next. HasReady D.meaning D.side_effects D.removable ctx.now.tree
        root (pending_candidates worklist.new ++ next ∷ []))) }
    ensures none { IfOk result (λ found. IfNone found ((x : Item) → IsReady D.meaning D.side_effects D.removable
        ctx.now.tree root x → ⊥)) }
    ensures closed { OnOk result (AreClosedUnderNesting ctx.now.tree worklist.new.around.ops.items) }
{
    if let Some(next) = next_of::<D>(worklist, predecessors, root, ctx) {
        return Ok(Some(next));
    }
    begin_round::<D>(worklist, predecessors, root, ctx)?;
    if let Some(next) = next_of::<D>(worklist, predecessors, root, ctx) {
        return Ok(Some(next));
    }
    begin_around::<D>(worklist, ctx)?;
    Ok(next_of::<D>(worklist, predecessors, root, ctx))
}

// What defines the value is visited in the next round. Answers the operation around it.
#[inline(always)]
fn revisit_definer(
    worklist: &mut Worklist,
    value: Value,
    ctx: &Context,
) -> Result<Option<Ptr<Operation>>, AllocError>
    requires { IsDefined ctx.now.tree value }
    ensures kept { OnOk result ((x : Item) → Among x (items_of (pending_candidates worklist.old)) → Among x
        (items_of (pending_candidates worklist.new))) }
    ensures makers { OnOk result ((k i : ℕ) → definition_of ctx.now.tree value ≡ Some (AResult k i) → Among (Op k)
        (items_of (pending_candidates worklist.new))) }
    ensures arguments { OnOk result ((b i : ℕ) → definition_of ctx.now.tree value ≡ Some (AnArgument b i) → Among
        (Arg value) (items_of (pending_candidates worklist.new))) }
    ensures keys { OnOk result (worklist.new.around.ops.items ≡ worklist.old.around.ops.items) }
    ensures around { IfOk result (λ holder. IsAroundMaker ctx.now.tree value holder) }
    ensures live { IfOk result (λ holder. IfSome holder (λ op. IsLive ctx.now.tree op)) }
{
    ctx.well_formed();
    match value.def(ctx) {
        Def::Result(op, _) => {
            worklist.add(DeadCandidate::Operation(op))?;
            Ok(op.get_parent_op(ctx))
        }
        Def::Argument(block, _) => {
            worklist.add(DeadCandidate::Argument(value))?;
            Ok(Some(parent_operation_of(block, ctx)))
        }
    }
}

// The operations around what defines the value, this one first, are visited once nothing else is ready.
#[inline(always)]
fn push_around(
    around: &mut AroundSet,
    value: Value,
    first: Option<Ptr<Operation>>,
    ctx: &Context,
) -> Result<(), AllocError>
    requires around { IsAroundMaker ctx.now.tree value first }
    requires live { IfSome first (λ op. IsLive ctx.now.tree op) }
    requires closed { AreClosedUnderNesting ctx.now.tree around.old.ops.items }
    ensures adds_parents { OnOk result (AddsParents ctx.now.tree value around.old.ops.items around.new.ops.items) }
    ensures closed { OnOk result (AreClosedUnderNesting ctx.now.tree around.new.ops.items) }
{
    ctx.well_formed();
    let mut holder = first;
    while let Some(op) = holder {
        if !around.add(op)? {
            return Ok(());
        }
        holder = op.get_parent_op(ctx);
    }
    Ok(())
}

// Whether the value is live; one that is known to be isn't tested.
#[inline(always)]
fn is_noted(value: Value, is_known: bool, ctx: &Context) -> bool
    requires { IsTrue is_known → IsDefined ctx.now.tree value }
    ensures { IsTrue result ↔ IsDefined ctx.now.tree value }
{
    is_known || value.is_live(ctx)
}

// What may have become ready when these values lost uses: what defines each of them, and the operations around
// it. They may be known to be live.
#[inline(always)]
pub(crate) fn note(
    worklist: &mut Worklist,
    used: &[Value],
    are_live: bool,
    ctx: &Context,
) -> Result<(), AllocError>
    requires live { IsTrue are_live → (v : ℕ) → In v used.now → IsDefined ctx.now.tree v }
    requires closed { AreClosedUnderNesting ctx.now.tree worklist.old.around.ops.items }
    ensures kept { OnOk result ((x : Item) → Among x (items_of (pending_candidates worklist.old)) → Among x
        (items_of (pending_candidates worklist.new))) }
    ensures revisited { OnOk result (AreRevisited ctx.now.tree used.now
        (items_of (pending_candidates worklist.new))) }
    ensures closed { OnOk result (AreClosedUnderNesting ctx.now.tree worklist.new.around.ops.items) }
{
    for value in used {
        if !is_noted(*value, are_live, ctx) {
            continue;
        }
        let holder = revisit_definer(worklist, *value, ctx)?;
        push_around(&mut worklist.around, *value, holder, ctx)?;
    }
    Ok(())
}
