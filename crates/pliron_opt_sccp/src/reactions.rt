//! What follows where an operand of an operation was lowered.
//!
//! An operation whose constraints don't depend on the operand is left alone; one that was visited since the value was
//! last lowered too, as stamps of visits and lowerings say. The others are scheduled for a visit. What has more than a
//! few operands, and was visited more than a few times, is propagated eagerly: for each lowered operand, the one
//! argument that it is forwarded to along an edge that the last visit found feasible, and the arguments of its
//! regions' entries that it names this operand for. Then its visit may wait until the end. The order decides no
//! lattice value.
ghost use Rattle.std.specs.Prelude.{◌≡◌, ◌<◌, ◌↔◌, ℕ, true, OnOk, IfSome, IsTrue, IsOkUnless, Some, None, length, slice_get};
ghost use Rattle.pliron_core.specs.Tree.{IsDefined, IsLive, arguments_of, successors_of};
ghost use Rattle.pliron_laws.specs.Answers.{ReadsHead};
ghost use Rattle.pliron_laws.specs.Tree.{Operation as OperationOf, op_at};
ghost use Rattle.pliron_laws.specs.declared.dialect.Interface.TheVariants.{RegionBranch};
ghost use Rattle.pliron_theory.specs.LatticeValues.{AtMost};
ghost use Rattle.pliron_opt_sccp.specs.Constraints.{Adds};
ghost use Rattle.pliron_opt_sccp.specs.Feasible.{leads};
ghost use Rattle.pliron_opt_sccp.specs.OperationVisits.{either, ConstrainsEagerly, IsVisitOutdated, IsReactionTo, WasVisited, IsNamedArgument, IsUseOf, SchedulesUses};
ghost use Rattle.pliron_opt_sccp.specs.LatticeTables.{lattice_value_in, known_constants, is_executable, lowered_stamp};

use crate::constraints::Constraint;
use crate::entry_operands::EntryArgument;
use crate::feasible_edges::FeasibleEdges;
use crate::lattice_tables::Tables;
use indexmap::IndexSet;
use pliron_core::{BasicBlock, Context, Operation, Ptr, Value};
use pliron_laws::{Dialect, Interface, OptError};
use pliron_theory::HasFolding;
use std::collections::HashSet;

/// Whether the operation is in an executable block that was visited.
#[inline(always)]
pub(crate) fn is_visited(op: Ptr<Operation>, ctx: &Context, tables: &Tables) -> bool
    requires { IsLive ctx.now.tree op }
    ensures { IsTrue result ↔ WasVisited ctx.now.tree tables.now op }
{
    match op.get_parent_block(ctx) {
        Some(block) => tables.is_executable(block) && !tables.is_on_worklist(block),
        None => false,
    }
}

/// A use of a lowered value, with the stamp of its last lowering: the operand of the operation at this place.
#[derive(Drop)]
pub(crate) struct LoweredUse {
    pub(crate) op: Ptr<Operation>,
    pub(crate) place: usize,
    pub(crate) value: Value,
    pub(crate) stamp: u64,
}

/// What lowered values call for.
///
/// ```text
/// users         operations that are to be visited again, each once
/// urgent        those of them that are visited before the ones whose operands were propagated eagerly
/// constraints   those on single arguments, of other users
/// ```
#[derive(Drop)]
pub(crate) struct Reactions {
    pub(crate) users: IndexSet<Ptr<Operation>>,
    pub(crate) urgent: HashSet<u64>,
    pub(crate) constraints: Vec<Constraint>,
}

/// What is to be done where an operand of an operation was lowered.
pub enum Reaction {
    /// The constraints of the operation don't depend on the operand.
    Pass,
    /// It is visited again.
    Revisit,
    /// They are the same but for one argument: the edge, and the argument's place there.
    Ask(usize, usize),
}

// Whether the constraints of the operation may depend on all its operands: it folds, or folds as a branch, or names
// operands for the entries of its regions.
fn reads_all<D: Dialect>(op: Ptr<Operation>, ctx: &Context) -> bool
    requires { IsLive ctx.now.tree op }
    ensures { ReadsHead (λ h. either (D.can_fold h) (either (D.can_fold_branch h) (D.has_interface h RegionBranch)))
        ctx.now.tree op result }
{
    D::folds(op, ctx) || D::folds_branch(op, ctx) || D::implements(op, ctx, Interface::RegionBranch)
}

// What is to be done where the operand at this place was lowered. Cost: that of a few tests of the dialect.
fn reaction_to<D: Dialect>(op: Ptr<Operation>, place: usize, ctx: &Context) -> Reaction
    requires { IsLive ctx.now.tree op }
    ensures { IsReactionTo ⟦<D as HasFolding>⟧.folding ctx.now.tree op place result }
{
    if reads_all::<D>(op, ctx) {
        return Reaction::Revisit;
    }
    if !D::is_branch(op, ctx) {
        return Reaction::Pass;
    }
    match D::forwarded_from(op, ctx, place) {
        Some((edge, index)) => Reaction::Ask(edge, index),
        None => Reaction::Revisit,
    }
}

// The argument at this index of the edge, if it has one, is at or below the lattice value of the lowered value.
fn constrain_argument(
    from: &LoweredUse,
    edge: usize,
    index: usize,
    ctx: &Context,
    tables: &Tables,
    constraints: &mut Vec<Constraint>,
) -> Result<(), OptError>
    requires live { IsLive ctx.now.tree from.now.op }
    requires edge { edge < length (successors_of ctx.now.tree from.now.op) }
    ensures ok { OnOk result (Adds (known_constants tables.now) constraints.old.items constraints.new.items
        (λ now. (b a : ℕ) → slice_get (successors_of ctx.now.tree from.now.op) edge ≡ Some b → slice_get
        (arguments_of ctx.now.tree b) index ≡ Some a → AtMost (now.lattice_value a)
        (lattice_value_in tables.now from.now.value))) }
    ensures memory { IsOkUnless result OptError.Memory }
{
    let block = from.op.get_successor(ctx, edge);
    if index < block.num_argument(ctx) {
        let cell = tables.cell(from.value);
        constraints.push(Constraint::Lower(block.get_argument(ctx, index), cell))?;
    }
    Ok(())
}

/// How many operands are few. What has more is deferred, and visited where nothing else is left to visit.
pub(crate) const FEW_OPERANDS: usize = 8;

// Whether the block is executable, and kept as one that the operation may go to.
fn is_open(
    op: Ptr<Operation>,
    block: Ptr<BasicBlock>,
    tables: &Tables,
    edges: &FeasibleEdges,
) -> bool
    ensures { IsTrue result → (is_executable tables.now block ≡ true) × (leads edges.now op block ≡ true) }
{
    tables.is_executable(block) && edges.leads(op, block)
}

// The argument of an entry that is listed so, if it is there and the operation names this place for it.
fn named_argument<D: Dialect>(
    op: Ptr<Operation>,
    place: usize,
    candidate: EntryArgument,
    ctx: &Context,
) -> Option<Value>
    requires { IsLive ctx.now.tree op }
    ensures { IfSome result (λ a. (o : OperationOf) → op_at ctx.now.tree op ≡ Some o
        → IsNamedArgument ⟦<D as HasFolding>⟧.folding ctx.now.tree o place a) }
{
    let EntryArgument { region, index, .. } = candidate;
    if region >= op.num_region(ctx) {
        return None;
    }
    let entry = op.get_region(ctx, region).get_head(ctx)?;
    if index >= entry.num_argument(ctx) {
        return None;
    }
    match D::entry_operand(op, ctx, region, index) {
        Some(named) if named == place => Some(entry.get_argument(ctx, index)),
        _ => None,
    }
}

// Constrains the argument that is listed so, if the operation names this place for it.
fn constrain_candidate<D: Dialect>(
    from: &LoweredUse,
    candidate: EntryArgument,
    ctx: &Context,
    tables: &Tables,
    constraints: &mut Vec<Constraint>,
) -> Result<(), OptError>
    requires { IsLive ctx.now.tree from.now.op }
    ensures ok { OnOk result ((edges : FeasibleEdges) → ConstrainsEagerly ⟦<D as HasFolding>⟧.folding ctx.now.tree
        tables.now edges from.now.op from.now.place from.now.value constraints.old.items constraints.new.items) }
    ensures memory { IsOkUnless result OptError.Memory }
{
    let Some(argument) = named_argument::<D>(from.op, from.place, candidate, ctx) else {
        return Ok(());
    };
    let cell = tables.cell(from.value);
    constraints.push(Constraint::Lower(argument, cell))?;
    Ok(())
}

// Constrains the arguments for which an operation with many operands names this place, if it was visited more than
// a few times.
fn propagate_named_eagerly<D: Dialect>(
    from: &LoweredUse,
    ctx: &Context,
    tables: &Tables,
    edges: &FeasibleEdges,
    constraints: &mut Vec<Constraint>,
) -> Result<(), OptError>
    requires { IsLive ctx.now.tree from.now.op }
    ensures ok { OnOk result (ConstrainsEagerly ⟦<D as HasFolding>⟧.folding ctx.now.tree tables.now edges.now
        from.now.op from.now.place from.now.value constraints.old.items constraints.new.items) }
    ensures memory { IsOkUnless result OptError.Memory }
{
    let Some(candidates) = edges.entry_candidates(from.op) else {
        return Ok(());
    };
    let mut count = candidates.last(from.place);
    while let Some(candidate) = candidates.get(count) {
        constrain_candidate::<D>(from, candidate, ctx, tables, constraints)?;
        count = candidate.before;
    }
    Ok(())
}

// Constrains the one argument to which a branch forwards the value from this place, if the edge was found feasible.
fn propagate_forwarded_eagerly<D: Dialect>(
    from: &LoweredUse,
    ctx: &Context,
    tables: &Tables,
    edges: &FeasibleEdges,
    constraints: &mut Vec<Constraint>,
) -> Result<(), OptError>
    requires { IsLive ctx.now.tree from.now.op }
    ensures ok { OnOk result (ConstrainsEagerly ⟦<D as HasFolding>⟧.folding ctx.now.tree tables.now edges.now
        from.now.op from.now.place from.now.value constraints.old.items constraints.new.items) }
    ensures memory { IsOkUnless result OptError.Memory }
{
    if !D::is_branch(from.op, ctx) {
        return Ok(());
    }
    let Some((edge, index)) = D::forwarded_from(from.op, ctx, from.place) else {
        return Ok(());
    };
    if is_open(from.op, from.op.get_successor(ctx, edge), tables, edges) {
        constrain_argument(from, edge, index, ctx, tables, constraints)
    } else {
        Ok(())
    }
}

// Propagates eagerly what an operation with many operands passes on from this place: so a visit for its other
// operands may be deferred until all of them are lowered.
fn propagate_eagerly<D: Dialect>(
    from: &LoweredUse,
    ctx: &Context,
    tables: &Tables,
    edges: &FeasibleEdges,
    constraints: &mut Vec<Constraint>,
) -> Result<(), OptError>
    requires { IsLive ctx.now.tree from.now.op }
    ensures ok { OnOk result (ConstrainsEagerly ⟦<D as HasFolding>⟧.folding ctx.now.tree tables.now edges.now
        from.now.op from.now.place from.now.value constraints.old.items constraints.new.items) }
    ensures memory { IsOkUnless result OptError.Memory }
{
    if edges.is_empty() || from.op.num_operand(ctx) <= FEW_OPERANDS {
        return Ok(());
    }
    propagate_named_eagerly::<D>(from, ctx, tables, edges, constraints)?;
    propagate_forwarded_eagerly::<D>(from, ctx, tables, edges, constraints)
}

// Whether the stamps say that the operation was visited since the value was last lowered.
#[inline(always)]
fn was_visited_since_lowered(op: Ptr<Operation>, stamp: u64, ctx: &Context, tables: &Tables) -> bool
    requires { IsLive ctx.now.tree op }
    ensures { IsTrue result → (value : ℕ) → stamp ≡ lowered_stamp tables.now value
        → IsVisitOutdated ctx.now.tree tables.now op value → ⊥ }
{
    op.num_result(ctx) > 0 && stamp < tables.visit_stamp(op.get_result(ctx, 0))
}

// Whether all that the operation does with the operand at this place was propagated eagerly, so far as is known:
// then a visit of it may be deferred until the end. The lattice values don't depend on it.
fn is_propagated_eagerly<D: Dialect>(
    op: Ptr<Operation>,
    place: usize,
    ctx: &Context,
    edges: &FeasibleEdges,
) -> bool
    requires { IsLive ctx.now.tree op }
{
    if !edges.has_eager_edges(op) || D::folds(op, ctx) {
        return false;
    }
    !D::is_branch(op, ctx) || D::forwarded_from(op, ctx, place).is_some()
}

// Marks an operation with many operands that is to be visited before those whose operands were propagated eagerly.
fn mark_urgent<D: Dialect>(
    op: Ptr<Operation>,
    place: usize,
    ctx: &Context,
    edges: &FeasibleEdges,
    urgent: &mut HashSet<u64>,
) -> Result<(), OptError>
    requires { IsLive ctx.now.tree op }
    ensures memory { IsOkUnless result OptError.Memory }
{
    if op.num_operand(ctx) > FEW_OPERANDS && !is_propagated_eagerly::<D>(op, place, ctx, edges) {
        urgent.insert(op.key())?;
    }
    Ok(())
}

// Schedules one use of a lowered value, by an operation that was visited, and not since the lowering.
#[inline(always)]
fn add_use<D: Dialect>(
    from: &LoweredUse,
    ctx: &Context,
    tables: &Tables,
    edges: &FeasibleEdges,
    scheduled: &mut Reactions,
) -> Result<(), OptError>
    requires live { IsLive ctx.now.tree from.now.op }
    requires stamp { from.now.stamp ≡ lowered_stamp tables.now from.now.value }
    ensures ok { OnOk result (SchedulesUses ⟦<D as HasFolding>⟧.folding ctx.now.tree tables.now edges.now
        from.now.value (λ k p. (k ≡ from.now.op) × (p ≡ from.now.place)) scheduled.old.users.keys
        scheduled.old.constraints.items scheduled.new.users.keys scheduled.new.constraints.items) }
    ensures memory { IsOkUnless result OptError.Memory }
{
    if was_visited_since_lowered(from.op, from.stamp, ctx, tables) {
        return Ok(());
    }
    if !is_visited(from.op, ctx, tables) {
        return Ok(());
    }
    match reaction_to::<D>(from.op, from.place, ctx) {
        Reaction::Pass => Ok(()),
        Reaction::Revisit => {
            scheduled.users.insert(from.op)?;
            mark_urgent::<D>(from.op, from.place, ctx, edges, &mut scheduled.urgent)?;
            propagate_eagerly::<D>(from, ctx, tables, edges, &mut scheduled.constraints)
        }
        Reaction::Ask(edge, index) => {
            constrain_argument(from, edge, index, ctx, tables, &mut scheduled.constraints)
        }
    }
}

/// Schedules the uses of the value by operations in blocks that were visited. Asks that the value is live.
pub(crate) fn add_uses<D: Dialect>(
    value: Value,
    ctx: &Context,
    tables: &Tables,
    edges: &FeasibleEdges,
    scheduled: &mut Reactions,
) -> Result<(), OptError>
    requires { IsDefined ctx.now.tree value }
    ensures ok { OnOk result (SchedulesUses ⟦<D as HasFolding>⟧.folding ctx.now.tree tables.now edges.now value
        (IsUseOf ctx.now.tree value) scheduled.old.users.keys scheduled.old.constraints.items scheduled.new.users.keys
        scheduled.new.constraints.items) }
    ensures memory { IsOkUnless result OptError.Memory }
{
    ctx.well_formed();
    let stamp = tables.lowered_stamp(value);
    for i in 0..value.num_use(ctx) {
        let (op, place) = value.get_use(ctx, i);
        let from = LoweredUse {
            op,
            place,
            value,
            stamp,
        };
        add_use::<D>(&from, ctx, tables, edges, scheduled)?;
    }
    Ok(())
}
