//! The loop: what is ready is erased, until nothing is.
ghost use Rattle.std.specs.Prelude.{◌≡◌, ◌↔◌, ◌⊎◌, ◌++◌, ◌∷◌, [], ℕ, List, IfOk, OnOk, OnErr, IsTrue, IsOkUnless};
ghost use Rattle.pliron_core.specs.Tree.{IsLive};
ghost use Rattle.pliron_theory.specs.Keeps.{KeepsRuns};
ghost use Rattle.pliron_laws.specs.Linked.{IsWellLinked};
ghost use Rattle.pliron_theory.specs.Edges.{KeepsEdges, has_regions as is_with_regions};
ghost use Rattle.pliron_opt_dce.specs.Dead.{Item};
ghost use Rattle.pliron_opt_dce.specs.Readiness.{IsReady};
ghost use Rattle.pliron_opt_dce.specs.Incoming.{incoming_of, AreKnown};
ghost use Rattle.pliron_opt_dce.specs.Predecessors.{mark_of_block, AreMarked};
ghost use Rattle.pliron_opt_dce.specs.Erasing.{ErasesItem, HasRegions, SomeHasRegions, IsSweptSoFar, LeavesNoDead, ReportsErased};
ghost use Rattle.pliron_opt_dce.specs.Worklist.{item_of, pending_candidates, HasReady, AreClosedUnderNesting};

use crate::erase::{erase_dead_argument, erase_dead_operation};
use crate::incoming::Incoming;
use crate::predecessors::Predecessors;
use crate::scan_positions::ScanPositions;
use crate::worklist::{DeadCandidate, Worklist, next_ready, note};
use pliron_core::{Context, Def, IRStatus, Operation, Ptr, Value};
use pliron_laws::{Dialect, OptError};
use std::alloc::Global;

// Whether the operation has regions.
fn has_regions(op: Ptr<Operation>, ctx: &Context) -> bool
    requires { IsLive ctx.now.tree op }
    ensures { IsTrue result ↔ IsTrue (is_with_regions ctx.now.tree op) }
{
    op.num_region(ctx) != 0
}

fn either(a: bool, b: bool) -> bool
    ensures { IsTrue result ↔ (IsTrue a ⊎ IsTrue b) }
{
    a || b
}

// What the loop keeps from one candidate to the next: the worklist, the edges to blocks that lost arguments, and
// a list, for what an erased operation used.
#[derive(Drop)]
struct SweepState {
    worklist: Worklist,
    incoming: Incoming,
    used: Vec<Value>,
}

// A ready candidate is erased, and what may be ready then is put on the worklist. Answers whether it had
// regions.
fn erase_one<D: Dialect>(
    alloc: Global,
    next: DeadCandidate,
    root: Ptr<Operation>,
    state: &mut SweepState,
    ctx: &mut Context,
) -> Result<bool, OptError>
    requires linked { IsWellLinked D.meaning ctx.old.tree root }
    requires ready { IsReady D.meaning D.side_effects D.removable ctx.old.tree root (item_of next) }
    requires all { HasReady D.meaning D.side_effects D.removable ctx.old.tree root
        (pending_candidates state.old.worklist ++ next ∷ []) }
    requires closed { AreClosedUnderNesting ctx.old.tree state.old.worklist.around.ops.items }
    requires known { AreKnown D.meaning ctx.old.tree root (λ b. incoming_of state.old.incoming b) }
    ensures goes { OnOk result (ErasesItem D.meaning D.shortened ctx.old.tree ctx.new.tree (item_of next)) }
    ensures all { OnOk result (HasReady D.meaning D.side_effects D.removable ctx.new.tree root
        (pending_candidates state.new.worklist)) }
    ensures closed { OnOk result (AreClosedUnderNesting ctx.new.tree state.new.worklist.around.ops.items) }
    ensures known { OnOk result (AreKnown D.meaning ctx.new.tree root (λ b. incoming_of state.new.incoming b)) }
    ensures regions { IfOk result (λ had. IsTrue had ↔ HasRegions ctx.old.tree (item_of next)) }
    ensures refused { OnErr result ((ctx.new.tree ≡ ctx.old.tree) ⊎ ErasesItem D.meaning D.shortened ctx.old.tree
        ctx.new.tree (item_of next)) }
    ensures memory { IsOkUnless result OptError.Memory }
{
    ctx.well_formed();
    match next {
        DeadCandidate::Operation(op) => {
            let had = has_regions(op, ctx);
            erase_dead_operation::<D>(&mut state.used, op, root, ctx)?;
            ctx.well_formed();
            note(&mut state.worklist, &state.used, !had, ctx)?;
            Ok(had)
        }
        DeadCandidate::Argument(value) => match value.def(ctx) {
            Def::Argument(block, index) => {
                state.incoming.add::<D>(alloc, block, index, root, ctx)?;
                let edges = state.incoming.edges_to(block);
                let lost = erase_dead_argument::<D>(alloc, block, index, edges, root, ctx)?;
                ctx.well_formed();
                note(&mut state.worklist, &lost, false, ctx)?;
                Ok(false)
            }
            Def::Result(_, _) => unreachable!(),
        },
    }
}

// What is ready is erased, until nothing is. Answers whether something was erased, and whether regions were.
fn erase_all_dead<D: Dialect>(
    alloc: Global,
    root: Ptr<Operation>,
    state: &mut SweepState,
    predecessors: &Predecessors,
    ctx: &mut Context,
) -> Result<(IRStatus, bool), OptError>
    requires live { IsLive ctx.old.tree root }
    requires linked { IsWellLinked D.meaning ctx.old.tree root }
    requires all { HasReady D.meaning D.side_effects D.removable ctx.old.tree root
        (pending_candidates state.old.worklist) }
    requires closed { AreClosedUnderNesting ctx.old.tree state.old.worklist.around.ops.items }
    requires known { AreKnown D.meaning ctx.old.tree root (λ b. incoming_of state.old.incoming b) }
    requires marked { AreMarked D.meaning ctx.old.tree root (λ b. mark_of_block predecessors.now b) }
    ensures deleted { (deleted : List Item) × IsSweptSoFar D.meaning D.shortened D.side_effects D.removable ctx.old.tree
        ctx.new.tree root deleted × IfOk result (λ a. LeavesNoDead D.meaning D.side_effects D.removable ctx.old.tree
        ctx.new.tree root × ReportsErased deleted a.0 × (IsTrue a.1 ↔ SomeHasRegions ctx.old.tree deleted)) }
    ensures edges { IfOk result (λ a. (IsTrue a.1 → ⊥) → KeepsEdges ctx.old.tree ctx.new.tree) }
    ensures memory { IsOkUnless result OptError.Memory }
{
    let mut status = IRStatus::Unchanged;
    let mut regions = false;
    while let Some(next) = next_ready::<D>(&mut state.worklist, predecessors, root, ctx)? {
        ctx.well_formed();
        let taken = erase_one::<D>(alloc, next, root, state, ctx);
        ctx.well_formed();
        let had = taken?;
        regions = either(regions, had);
        status = IRStatus::Changed;
    }
    Ok((status, regions))
}

// What is ready is erased, until nothing is. Answers whether something was erased, and whether regions were. No
// list stays indexed, also after an error.
pub(crate) fn sweep<D: Dialect>(
    alloc: Global,
    root: Ptr<Operation>,
    candidates: Vec<DeadCandidate>,
    scans: ScanPositions,
    predecessors: &Predecessors,
    ctx: &mut Context,
) -> Result<(IRStatus, bool), OptError>
    requires live { IsLive ctx.old.tree root }
    requires linked { IsWellLinked D.meaning ctx.old.tree root }
    requires all { HasReady D.meaning D.side_effects D.removable ctx.old.tree root candidates.items }
    requires marked { AreMarked D.meaning ctx.old.tree root (λ b. mark_of_block predecessors.now b) }
    ensures deleted { (deleted : List Item) × IsSweptSoFar D.meaning D.shortened D.side_effects D.removable ctx.old.tree
        ctx.new.tree root deleted × IfOk result (λ a. LeavesNoDead D.meaning D.side_effects D.removable ctx.old.tree
        ctx.new.tree root × ReportsErased deleted a.0 × (IsTrue a.1 ↔ SomeHasRegions ctx.old.tree deleted)) }
    ensures edges { IfOk result (λ a. (IsTrue a.1 → ⊥) → KeepsEdges ctx.old.tree ctx.new.tree) }
    ensures memory { IsOkUnless result OptError.Memory }
{
    let worklist = Worklist::new(alloc, candidates, scans);
    let incoming = Incoming::new(alloc);
    let mut state = SweepState {
        worklist,
        incoming,
        used: Vec::new(alloc),
    };
    let swept = erase_all_dead::<D>(alloc, root, &mut state, predecessors, ctx);
    state.incoming.settle(ctx);
    swept
}
