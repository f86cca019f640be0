//! The search for a fixpoint, by two worklists of blocks and of values.
//!
//! Source: Wegman and Zadeck, Constant Propagation with Conditional Branches (1991), section 3: their two worklists,
//! of flow edges and of uses in SSA form, are here one of blocks and one of values.
//!
//! The order of work. A block is popped before any value, and visited as a whole, its operations in order. Where no
//! block is on the worklist, all values on theirs are popped, one by one, and then each of their users is visited
//! once. Not visited are
//!
//! - users whose constraints don't depend on the operand: what neither folds, nor is a branch, nor names operands
//!   for its regions is visited with its block alone;
//! - users visited since the value was last lowered, as stamps of visits and lowerings say: so an operation whose
//!   operands were all lowered before its block was popped is visited once.
//!
//! So a branch that forwards many values lowered together is visited once, and no region is visited in rounds: a
//! value is lowered at most twice, and only its users are visited then. In deep nests of loops an inner loop is thus
//! not visited anew for each round of the outer ones.
//!
//! A user with more than a few operands is deferred, once, until both worklists are empty. Deferred users are visited
//! one at a time, those with the fewest operands first, and what a visit lowered is propagated before the next one. So
//! a branch that folds, and forwards many values lowered one after the other, is visited when all of them are lowered,
//! and not after each.
//!
//! Deferring is no help to a branch that lowers its own next operand, as in a loop that moves its arguments on by one
//! place. So the lowered operands of a user that was visited more than a few times are propagated eagerly: each to the
//! argument that it is forwarded to along an edge that the last visit found feasible, and to the arguments of entries
//! for which the user names this operand. The order decides no lattice value.
ghost use Rattle.std.specs.Prelude.{◌≡◌, ◌<◌, ℕ, true, OnOk, IfOk, IsOkUnless, Some, None};
ghost use Rattle.pliron_core.specs.Tree.{IsDefined, IsLive, IsBlock, In, body_of};
ghost use Rattle.pliron_laws.specs.Linked.{IsWellLinked};
ghost use Rattle.pliron_opt_sccp.specs.WorklistCounts.{IsUnsearched};
ghost use Rattle.pliron_opt_sccp.specs.Deferring.{deferred_operations};
ghost use Rattle.pliron_opt_sccp.specs.Constraints.{AreEntriesExecutable};
ghost use Rattle.pliron_opt_sccp.specs.Feasible.{leads, AreFound, KeepsAmong, KeepsFeasible};
ghost use Rattle.pliron_opt_sccp.specs.OperationVisits.{AreTargetsNumbered, VisitsInTurnAndKeeps, HasNumberedTargets, WasVisited, VisitsOperation, StampsIt, PopsUsers};
ghost use Rattle.pliron_opt_sccp.specs.Fixpoint.{IsSearched};
ghost use Rattle.pliron_opt_sccp.specs.Searching.{IsVisitedOrDeferred, VisitsDeferred, VisitsOrDefersAll, TakesTurn, VisitsValues};
ghost use Rattle.pliron_opt_sccp.specs.Starting.{IsStarted};
ghost use Rattle.pliron_opt_sccp.specs.Replacements.{HasFound};
ghost use Rattle.pliron_opt_sccp.specs.LatticeTables.{lattice_values_of, is_block_on_worklist, is_value_on_worklist};

use crate::constraints::{Scratch, constrain_entries, constraints_of, satisfy_all};
use crate::deferred::DeferredOperations;
use crate::feasible_edges::FeasibleEdges;
use crate::inside::{all_blocks, block_numbers, count_values, value_numbers};
use crate::lattice_tables::Tables;
use crate::reactions::{FEW_OPERANDS, Reactions, add_uses};
use crate::rewrite::{Replacements, all_arguments, all_folds};
use indexmap::IndexSet;
use pliron_core::{BasicBlock, Context, Operation, Ptr};
use pliron_laws::{Dialect, Interface, OptError};
use pliron_theory::HasFolding;
use std::alloc::Global;
use std::collections::HashSet;

// Nothing is known yet of the values inside the root, no block is executable, and the worklists are empty.
fn initial_tables(alloc: Global, root: Ptr<Operation>, ctx: &Context) -> Result<Tables, OptError>
    requires { IsLive ctx.now.tree root }
    ensures ok { IfOk result (λ tables. IsUnsearched ctx.now.tree root tables) }
    ensures memory { IsOkUnless result OptError.Memory }
{
    ctx.well_formed();
    let blocks = all_blocks(alloc, root, ctx)?;
    let numbered = block_numbers(alloc, &blocks)?;
    let values = value_numbers(alloc, root, count_values(&blocks, ctx), ctx)?;
    Tables::with_room_for(alloc, numbered, values)
}

/// The entries of the root's regions are executable and on the worklist, their arguments are not constants, and
/// nothing is known of all other values inside the root. Asks that the root is live. Errors: allocation failure.
/// Cost: one step for each operation, block, region and value inside it.
pub fn start(alloc: Global, root: Ptr<Operation>, ctx: &Context) -> Result<Tables, OptError>
    requires { IsLive ctx.now.tree root }
    ensures ok { IfOk result (λ tables. IsStarted ctx.now.tree root tables) }
    ensures memory { IsOkUnless result OptError.Memory }
{
    ctx.well_formed();
    let mut tables = initial_tables(alloc, root, ctx)?;
    let mut constraints = Vec::new(alloc);
    constrain_entries(root, ctx, &mut constraints)?;
    satisfy_all(&mut constraints, &mut tables);
    Ok(tables)
}

// Pops all values off the worklist, one by one. Answers the users that are to be visited again, each once; the
// constraints, on one argument each, of users that are propagated eagerly; and how many values were popped. A user whose
// block wasn't visited yet is passed over: a block on the worklist is still to be visited, and one that isn't executable
// puts no constraint. The most precise lattice values need this: an operation that is visited before its block could
// read a value of which nothing is known yet. Asks that the values on the worklist are live. Errors: allocation failure. Cost: one step for each value and for each use of it.
fn take_values<D: Dialect>(
    alloc: Global,
    ctx: &Context,
    tables: &mut Tables,
    edges: &FeasibleEdges,
) -> Result<(Reactions, u128), OptError>
    requires { (v : ℕ) → is_value_on_worklist tables.old v ≡ true → IsDefined ctx.now.tree v }
    ensures ok { IfOk result (λ r. PopsUsers ⟦<D as HasFolding>⟧.folding ctx.now.tree edges.now r.0.users.keys
        r.0.constraints.items tables.old tables.new r.1) }
    ensures memory { IsOkUnless result OptError.Memory }
{
    let users = IndexSet::new(alloc);
    let urgent = HashSet::new(alloc);
    let constraints = Vec::new(alloc);
    let mut scheduled = Reactions {
        users,
        urgent,
        constraints,
    };
    let mut taken: u128 = 0;
    while let Some(value) = tables.pop_value() {
        taken += 1;
        add_uses::<D>(value, ctx, tables, edges, &mut scheduled)?;
    }
    Ok((scheduled, taken))
}

// The visit of the operation gets its stamp, kept with its first result, if it has one.
#[inline(always)]
fn stamp(op: Ptr<Operation>, ctx: &Context, tables: &mut Tables)
    requires { IsLive ctx.now.tree op }
    ensures { StampsIt ctx.now.tree op tables.old tables.new }
{
    ctx.well_formed();
    if op.num_result(ctx) > 0 {
        tables.stamp_visit(op.get_result(ctx, 0));
    }
}

// Satisfies the constraints of the operation under the lattice values so far, and does nothing else. Where it folds
// as a branch, reports the blocks that it may go to. Asks that it is live, that the blocks which it may enter have
// numbers, that those recorded in the scratch set are entered, which holds again afterwards, and for a place that
// is empty. Errors: allocation failure. Cost: that of its constraints.
#[inline(always)]
fn visit_operation<D: Dialect>(
    op: Ptr<Operation>,
    ctx: &Context,
    tables: &mut Tables,
    scratch: &mut Scratch,
    feasible: &mut Option<HashSet<u64>>,
) -> Result<(), OptError>
    requires live { IsLive ctx.now.tree op }
    requires targets { HasNumberedTargets ctx.now.tree tables.old op }
    requires none { feasible.old ≡ None }
    requires entered { AreEntriesExecutable ctx.now.tree (lattice_values_of tables.old) scratch.old.entered }
    ensures ok { OnOk result (VisitsOperation ⟦<D as HasFolding>⟧.folding ctx.now.tree op tables.old tables.new) }
    ensures feasible { OnOk result (AreFound ⟦<D as HasFolding>⟧.folding ctx.now.tree (lattice_values_of tables.old) op
        feasible.new) }
    ensures entered { OnOk result (AreEntriesExecutable ctx.now.tree (lattice_values_of tables.new)
        scratch.new.entered) }
    ensures memory { IsOkUnless result OptError.Memory }
{
    constraints_of::<D>(op, ctx, tables, scratch, feasible)?;
    stamp(op, ctx, tables);
    satisfy_all(&mut scratch.constraints, tables);
    Ok(())
}

// Satisfies the constraints of the operation under the lattice values so far, and does nothing else. Asks that it
// is live, that the blocks which it may enter have numbers, and that those recorded in the scratch set are entered,
// which holds again afterwards. Errors: allocation failure. Cost: that of its constraints.
#[inline(always)]
fn visit_with_scratch<D: Dialect>(
    op: Ptr<Operation>,
    ctx: &Context,
    tables: &mut Tables,
    scratch: &mut Scratch,
) -> Result<(), OptError>
    requires live { IsLive ctx.now.tree op }
    requires targets { HasNumberedTargets ctx.now.tree tables.old op }
    requires entered { AreEntriesExecutable ctx.now.tree (lattice_values_of tables.old) scratch.old.entered }
    ensures ok { OnOk result (VisitsOperation ⟦<D as HasFolding>⟧.folding ctx.now.tree op tables.old tables.new) }
    ensures entered { OnOk result (AreEntriesExecutable ctx.now.tree (lattice_values_of tables.new)
        scratch.new.entered) }
    ensures memory { IsOkUnless result OptError.Memory }
{
    let mut feasible = None;
    visit_operation::<D>(op, ctx, tables, scratch, &mut feasible)
}

// Keeps these blocks, if the operation has many operands.
fn keep_feasible(
    op: Ptr<Operation>,
    feasible: Option<HashSet<u64>>,
    ctx: &Context,
    edges: &mut FeasibleEdges,
) -> Result<(), OptError>
    requires { IsLive ctx.now.tree op }
    ensures ok { OnOk result (KeepsAmong op feasible edges.old edges.new) }
    ensures memory { IsOkUnless result OptError.Memory }
{
    let Some(blocks) = feasible else {
        return Ok(());
    };
    if op.num_operand(ctx) > FEW_OPERANDS {
        edges.keep(op, blocks)
    } else {
        Ok(())
    }
}

// Lists the arguments that the operation names operands for, if it has many operands and was visited more than a
// few times.
fn keep_candidates<D: Dialect>(
    alloc: Global,
    op: Ptr<Operation>,
    ctx: &Context,
    edges: &mut FeasibleEdges,
) -> Result<(), OptError>
    requires { IsLive ctx.now.tree op }
    ensures ok { OnOk result ((k b : ℕ) → leads edges.new k b ≡ leads edges.old k b) }
    ensures memory { IsOkUnless result OptError.Memory }
{
    if op.num_operand(ctx) > FEW_OPERANDS && D::implements(op, ctx, Interface::RegionBranch) {
        edges.keep_named::<D>(alloc, op, ctx)
    } else {
        Ok(())
    }
}

// Visits the operation as one with many operands: keeps the blocks that it may go to, where it folds as a branch, and
// lists the arguments that it names operands for. Asks what `visit_with_scratch` asks. Errors: allocation
// failure. Cost: that of its constraints.
fn visit_wide<D: Dialect>(
    op: Ptr<Operation>,
    ctx: &Context,
    tables: &mut Tables,
    edges: &mut FeasibleEdges,
    scratch: &mut Scratch,
) -> Result<(), OptError>
    requires live { IsLive ctx.now.tree op }
    requires targets { HasNumberedTargets ctx.now.tree tables.old op }
    requires entered { AreEntriesExecutable ctx.now.tree (lattice_values_of tables.old) scratch.old.entered }
    ensures visits { OnOk result (VisitsOperation ⟦<D as HasFolding>⟧.folding ctx.now.tree op tables.old
        tables.new) }
    ensures keeps { OnOk result (KeepsFeasible ⟦<D as HasFolding>⟧.folding ctx.now.tree (lattice_values_of tables.old)
        op edges.old edges.new) }
    ensures entered { OnOk result (AreEntriesExecutable ctx.now.tree (lattice_values_of tables.new)
        scratch.new.entered) }
    ensures memory { IsOkUnless result OptError.Memory }
{
    let mut feasible = None;
    visit_operation::<D>(op, ctx, tables, scratch, &mut feasible)?;
    keep_candidates::<D>(scratch.alloc, op, ctx, edges)?;
    keep_feasible(op, feasible, ctx, edges)
}

// Visits the operation, and if it has many operands keeps the blocks that it may go to, where it folds as a branch,
// and lists the arguments that it names operands for. Asks what `visit_with_scratch` asks. Errors: allocation
// failure. Cost: that of its constraints.
#[inline(always)]
fn visit_and_keep<D: Dialect>(
    op: Ptr<Operation>,
    ctx: &Context,
    tables: &mut Tables,
    edges: &mut FeasibleEdges,
    scratch: &mut Scratch,
) -> Result<(), OptError>
    requires live { IsLive ctx.now.tree op }
    requires targets { HasNumberedTargets ctx.now.tree tables.old op }
    requires entered { AreEntriesExecutable ctx.now.tree (lattice_values_of tables.old) scratch.old.entered }
    ensures visits { OnOk result (VisitsOperation ⟦<D as HasFolding>⟧.folding ctx.now.tree op tables.old
        tables.new) }
    ensures keeps { OnOk result (KeepsFeasible ⟦<D as HasFolding>⟧.folding ctx.now.tree (lattice_values_of tables.old)
        op edges.old edges.new) }
    ensures entered { OnOk result (AreEntriesExecutable ctx.now.tree (lattice_values_of tables.new)
        scratch.new.entered) }
    ensures memory { IsOkUnless result OptError.Memory }
{
    if op.num_operand(ctx) > FEW_OPERANDS {
        visit_wide::<D>(op, ctx, tables, edges, scratch)
    } else {
        visit_with_scratch::<D>(op, ctx, tables, scratch)
    }
}

// Visits the operation, or defers it where it has more than a few operands. Asks what `visit_with_scratch` asks.
// Errors: allocation failure. Cost: that of its constraints, or constant.
fn visit_or_defer<D: Dialect>(
    op: Ptr<Operation>,
    urgent: &HashSet<u64>,
    ctx: &Context,
    tables: &mut Tables,
    deferred: &mut DeferredOperations,
    scratch: &mut Scratch,
) -> Result<(), OptError>
    requires live { IsLive ctx.now.tree op }
    requires targets { HasNumberedTargets ctx.now.tree tables.old op }
    requires entered { AreEntriesExecutable ctx.now.tree (lattice_values_of tables.old) scratch.old.entered }
    ensures ok { OnOk result (IsVisitedOrDeferred ⟦<D as HasFolding>⟧.folding ctx.now.tree op tables.old tables.new
        deferred.old deferred.new) }
    ensures entered { OnOk result (AreEntriesExecutable ctx.now.tree (lattice_values_of tables.new)
        scratch.new.entered) }
    ensures memory { IsOkUnless result OptError.Memory }
{
    let operands = op.num_operand(ctx);
    if operands > FEW_OPERANDS {
        deferred.put(scratch.alloc, op, operands, urgent.contains(&op.key()))
    } else {
        visit_with_scratch::<D>(op, ctx, tables, scratch)
    }
}

// Visits these operations, one after the other, but defers what has more than a few operands. Asks what
// `visit_with_scratch` asks, of each. Errors: allocation failure. Cost: that of their constraints.
fn visit_or_defer_all<D: Dialect>(
    ops: &[Ptr<Operation>],
    urgent: &HashSet<u64>,
    ctx: &Context,
    tables: &mut Tables,
    deferred: &mut DeferredOperations,
    scratch: &mut Scratch,
) -> Result<(), OptError>
    requires live { (k : ℕ) → In k ops.now → IsLive ctx.now.tree k }
    requires targets { (k : ℕ) → In k ops.now → HasNumberedTargets ctx.now.tree tables.old k }
    requires entered { AreEntriesExecutable ctx.now.tree (lattice_values_of tables.old) scratch.old.entered }
    ensures ok { OnOk result (VisitsOrDefersAll ⟦<D as HasFolding>⟧.folding ctx.now.tree ops.now tables.old tables.new
        deferred.old deferred.new) }
    ensures entered { OnOk result (AreEntriesExecutable ctx.now.tree (lattice_values_of tables.new)
        scratch.new.entered) }
    ensures memory { IsOkUnless result OptError.Memory }
{
    for i in 0..ops.len() {
        visit_or_defer::<D>(ops[i], urgent, ctx, tables, deferred, scratch)?;
    }
    Ok(())
}

// Visits the operations of the block, in order. Asks that the block is live, that the blocks which these may enter
// have numbers, and that those recorded in the scratch set are entered. Errors: allocation failure. Cost: that of
// their constraints.
fn visit_block<D: Dialect>(
    block: Ptr<BasicBlock>,
    ctx: &Context,
    tables: &mut Tables,
    edges: &mut FeasibleEdges,
    scratch: &mut Scratch,
) -> Result<(), OptError>
    requires block { IsBlock ctx.now.tree block }
    requires targets { (k : ℕ) → In k (body_of ctx.now.tree block) → HasNumberedTargets ctx.now.tree tables.old k }
    requires entered { AreEntriesExecutable ctx.now.tree (lattice_values_of tables.old) scratch.old.entered }
    ensures ok { OnOk result (VisitsInTurnAndKeeps ⟦<D as HasFolding>⟧.folding ctx.now.tree (body_of ctx.now.tree block)
        tables.old tables.new edges.old edges.new) }
    ensures entered { OnOk result (AreEntriesExecutable ctx.now.tree (lattice_values_of tables.new)
        scratch.new.entered) }
    ensures memory { IsOkUnless result OptError.Memory }
{
    ctx.well_formed();
    let mut at = block.get_head(ctx);
    while let Some(op) = at {
        visit_and_keep::<D>(op, ctx, tables, edges, scratch)?;
        at = op.get_next(ctx);
    }
    Ok(())
}

// Pops all values off the worklist, satisfies the constraints that are propagated eagerly, and visits their other
// users or defers them. Answers how many values these were.
fn visit_values<D: Dialect>(
    ctx: &Context,
    tables: &mut Tables,
    deferred: &mut DeferredOperations,
    edges: &FeasibleEdges,
    scratch: &mut Scratch,
) -> Result<u128, OptError>
    requires values { (v : ℕ) → is_value_on_worklist tables.old v ≡ true → IsDefined ctx.now.tree v }
    requires targets { AreTargetsNumbered ctx.now.tree tables.old }
    requires entered { AreEntriesExecutable ctx.now.tree (lattice_values_of tables.old) scratch.old.entered }
    ensures ok { IfOk result (λ taken. VisitsValues ⟦<D as HasFolding>⟧.folding ctx.now.tree edges.now tables.old
        tables.new deferred.old deferred.new taken) }
    ensures entered { OnOk result (AreEntriesExecutable ctx.now.tree (lattice_values_of tables.new)
        scratch.new.entered) }
    ensures memory { IsOkUnless result OptError.Memory }
{
    ctx.well_formed();
    let (mut scheduled, taken) = take_values::<D>(scratch.alloc, ctx, tables, edges)?;
    satisfy_all(&mut scheduled.constraints, tables);
    visit_or_defer_all::<D>(
        scheduled.users.as_slice(),
        &scheduled.urgent,
        ctx,
        tables,
        deferred,
        scratch,
    )?;
    Ok(taken)
}

// Pops a block off its worklist and visits it, or else pops all values and visits their users or defers them.
// Answers how many were popped, none where the worklists were empty.
fn step<D: Dialect>(
    ctx: &Context,
    tables: &mut Tables,
    deferred: &mut DeferredOperations,
    edges: &mut FeasibleEdges,
    scratch: &mut Scratch,
) -> Result<u128, OptError>
    requires blocks { (b : ℕ) → is_block_on_worklist tables.old b ≡ true → IsBlock ctx.now.tree b }
    requires values { (v : ℕ) → is_value_on_worklist tables.old v ≡ true → IsDefined ctx.now.tree v }
    requires targets { AreTargetsNumbered ctx.now.tree tables.old }
    requires entered { AreEntriesExecutable ctx.now.tree (lattice_values_of tables.old) scratch.old.entered }
    ensures ok { IfOk result (λ taken. TakesTurn ⟦<D as HasFolding>⟧.folding ctx.now.tree tables.old tables.new
        deferred.old deferred.new edges.old edges.new taken) }
    ensures entered { OnOk result (AreEntriesExecutable ctx.now.tree (lattice_values_of tables.new)
        scratch.new.entered) }
    ensures memory { IsOkUnless result OptError.Memory }
{
    ctx.well_formed();
    match tables.pop_block() {
        Some(block) => {
            visit_block::<D>(block, ctx, tables, edges, scratch)?;
            Ok(1)
        }
        None => visit_values::<D>(ctx, tables, deferred, edges, scratch),
    }
}

// Visits one deferred operation, of those with the fewest operands. Answers whether there was one. Errors:
// allocation failure. Cost: that of its constraints.
fn visit_deferred<D: Dialect>(
    ctx: &Context,
    tables: &mut Tables,
    deferred: &mut DeferredOperations,
    edges: &mut FeasibleEdges,
    scratch: &mut Scratch,
) -> Result<bool, OptError>
    requires placed { (k : ℕ) → In k (deferred_operations deferred.old) → WasVisited ctx.now.tree tables.old k }
    requires targets { AreTargetsNumbered ctx.now.tree tables.old }
    requires entered { AreEntriesExecutable ctx.now.tree (lattice_values_of tables.old) scratch.old.entered }
    ensures ok { IfOk result (λ was_visited. VisitsDeferred ⟦<D as HasFolding>⟧.folding ctx.now.tree tables.old
        tables.new deferred.old deferred.new edges.old edges.new was_visited) }
    ensures entered { OnOk result (AreEntriesExecutable ctx.now.tree (lattice_values_of tables.new)
        scratch.new.entered) }
    ensures memory { IsOkUnless result OptError.Memory }
{
    ctx.well_formed();
    match deferred.take() {
        Some(op) => {
            visit_and_keep::<D>(op, ctx, tables, edges, scratch)?;
            Ok(true)
        }
        None => Ok(false),
    }
}

/// What was found: the lattice values, and how many blocks and values were popped off the worklists, each as often
/// as it was.
#[derive(Drop)]
pub struct Fixpoint {
    pub tables: Tables,
    pub pops: u128,
}

/// The lattice values of what is inside the root. Asks that the root is live and is well linked. Errors: allocation
/// failure. Cost: one step for each operation, block, region and value inside the root, and the cost of a visit once
/// for the operation's block and once for each time when operands of it were lowered. Where operations that are no
/// branches lead to one block of more than a few arguments, these are constrained once for all of them.
pub fn search<D: Dialect>(
    alloc: Global,
    root: Ptr<Operation>,
    ctx: &Context,
) -> Result<Fixpoint, OptError>
    requires live { IsLive ctx.now.tree root }
    requires linked { IsWellLinked D.meaning ctx.now.tree root }
    ensures ok { IfOk result (λ r. IsSearched ⟦<D as HasFolding>⟧.folding ctx.now.tree root r.tables r.pops) }
    ensures memory { IsOkUnless result OptError.Memory }
{
    ctx.well_formed();
    let mut tables = start(alloc, root, ctx)?;
    let mut deferred = DeferredOperations::new(alloc);
    let mut edges = FeasibleEdges::new(alloc);
    let mut scratch = Scratch::new(alloc);
    let mut pops: u128 = 0;
    loop {
        let taken = step::<D>(ctx, &mut tables, &mut deferred, &mut edges, &mut scratch)?;
        if taken > 0 {
            pops += taken;
        } else if !visit_deferred::<D>(ctx, &mut tables, &mut deferred, &mut edges, &mut scratch)? {
            return Ok(Fixpoint { tables, pops });
        }
    }
}

/// Finds a fixpoint of lattice values inside the root, and what they say is to be rewritten. Answers also how
/// often the search popped something off a worklist.
///
/// Errors: allocation failure.
pub(crate) fn find<D: Dialect>(
    alloc: Global,
    root: Ptr<Operation>,
    ctx: &Context,
) -> Result<(Replacements, u128), OptError>
    requires live { IsLive ctx.now.tree root }
    requires linked { IsWellLinked D.meaning ctx.now.tree root }
    ensures ok { IfOk result (λ r. HasFound ⟦<D as HasFolding>⟧.folding D.can_fold ctx.now.tree root r.0 r.1) }
    ensures memory { IsOkUnless result OptError.Memory }
{
    let searched = search::<D>(alloc, root, ctx)?;
    let folds = all_folds::<D>(alloc, root, ctx, &searched.tables)?;
    let arguments = all_arguments(alloc, root, ctx, &searched.tables)?;
    Ok((Replacements { folds, arguments }, searched.pops))
}
