//! The constraints of an operation: its transfer function, read under the lattice values so far. Values are
//! lowered until they satisfy them.
//!
//! A constraint names a constant by its number in the tables, so that none is copied to pass it on.
//!
//! An operation that is no branch constrains its successors to be entered: executable, with no argument a
//! constant. Values are only lowered, so a block that was entered so is not constrained again: it is recorded,
//! where it has more than a few arguments. So the list has all constraints of the operation under the lattice
//! values that were read and those below them, but for satisfied ones, which are neither satisfied nor compared
//! again.
ghost use Rattle.std.specs.Prelude.{◌≡◌, ◌≤◌, ◌<◌, ◌↔◌, ◌∷◌, ◌++◌, [], ℕ, List, nat_eq, true, if◌then◌else◌, Some, None, OnOk, IfOk, IsTrue, length, slice_get, IsOkUnless};
ghost use Rattle.std.specs.HashSet.{contains};
ghost use Rattle.pliron_core.specs.Tree.{IsLive, IsBlock, IsRegion, In, arguments_of, operands_of, regions_of, results_of, successors_of};
ghost use Rattle.pliron_laws.specs.Tree.{Operation as OperationOf, op_at, shape_of};
ghost use Rattle.pliron_laws.specs.Answers.{HeadPasses};
ghost use Rattle.pliron_theory.specs.LatticeValues.{value_of_answer, operand_constants, AtMost, LatticeValues, AreBelowNamed, IsEntryExecutable, lattice_constant as known_of, NotAConstant as Varies};
ghost use Rattle.pliron_opt_sccp.specs.LatticeTables.{known_constants, lattice_values_of, lattice_value_in, StampsEachLowered};
ghost use Rattle.pliron_opt_sccp.specs.LatticeCells.{Means};
ghost use Rattle.pliron_opt_sccp.specs.Feasible.{AreFound};
ghost use Rattle.pliron_opt_sccp.specs.Lowering.{IsApplied};
ghost use Rattle.pliron_opt_sccp.specs.Constraints.{AddsUnder, AreEntriesExecutable, AreEntriesExecutableWhere, RecordsEntry};
ghost use Rattle.pliron_opt_sccp.specs.Constraints.{Adds, AlwaysAdds, CanSatisfy, Constrains, ConstrainsEntries, ConstrainsEdges, ConstrainsJumps};
ghost use Rattle.pliron_opt_sccp.specs.Constraints.{ConstrainsAnswers, ConstrainsResults, ConstrainsForwarded, ConstrainsBranches};
ghost use Rattle.pliron_opt_sccp.specs.Constraints.{ConstrainsInvocations, FollowsEdge, GetsForwarded, GetsNamed, AreFeasible, IsEntryOf, MayLead, EntryIsExecutable, InvocationIsExecutable};

use crate::lattice_tables::{LatticeCell, Tables};
use pliron_core::{AttrObj, BasicBlock, Context, Operation, Ptr, Region, Value};
use pliron_laws::{BranchOpFoldInterface, ConstFoldInterface, Dialect, OptError};
use pliron_theory::HasFolding;
use std::alloc::Global;
use std::collections::HashSet;

/// One constraint of an operation.
#[derive(Drop)]
pub enum Constraint {
    /// The block is executable.
    Enter(Ptr<BasicBlock>),
    /// The lattice value of the value is at or below what the cell means.
    Lower(Value, LatticeCell),
    /// The lattice value of the value is at or below this constant.
    Answer(Value, AttrObj),
}

/// The entry of a region of an operation.
#[derive(Drop)]
struct RegionEntry {
    op: Ptr<Operation>,
    region: usize,
    block: Ptr<BasicBlock>,
}

/// A branch, and the blocks that it may go to; `None` where it doesn't fold, and may go to all.
#[derive(Drop)]
struct Branch {
    op: Ptr<Operation>,
    feasible: Option<HashSet<u64>>,
}

/// Lists that each visit writes on, kept so that visits take no memory for lists of their own; and what later
/// visits need not constrain again.
///
/// ```text
/// alloc         what the lists of visits are allocated by
/// known         the constants that are known of the operands
/// constraints   those of this visit, until they are satisfied
/// entered       blocks with more than a few arguments that were entered by what is no branch
/// ```
#[derive(Drop)]
pub struct Scratch {
    pub(crate) alloc: Global,
    known: Vec<Option<AttrObj>>,
    pub(crate) constraints: Vec<Constraint>,
    pub(crate) entered: HashSet<u64>,
}

impl Scratch {
    ghost use Rattle.std.specs.Prelude.{◌≡◌, ℕ, false, nat_eq};
    ghost use Rattle.std.specs.HashSet.{contains};

    /// Empty lists, and no block was entered. Takes no memory. Cost: constant.
    pub fn new(alloc: Global) -> Scratch
        ensures { (b : ℕ) → contains nat_eq result.entered b ≡ false }
    {
        Scratch {
            alloc,
            known: Vec::new(alloc),
            constraints: Vec::new(alloc),
            entered: HashSet::new(alloc),
        }
    }
}

// The block is executable, and its arguments are not constants.
fn constrain_entry(
    block: Ptr<BasicBlock>,
    ctx: &Context,
    constraints: &mut Vec<Constraint>,
) -> Result<(), OptError>
    requires { IsBlock ctx.now.tree block }
    ensures ok { OnOk result (AlwaysAdds constraints.old.items constraints.new.items
        (λ now. IsEntryExecutable ctx.now.tree now block)) }
    ensures memory { IsOkUnless result OptError.Memory }
{
    constraints.push(Constraint::Enter(block))?;
    for i in 0..block.num_argument(ctx) {
        constraints.push(Constraint::Lower(block.get_argument(ctx, i), LatticeCell::NotAConstant))?;
    }
    Ok(())
}

// No result is a constant.
fn constrain_unknown(
    op: Ptr<Operation>,
    ctx: &Context,
    constraints: &mut Vec<Constraint>,
) -> Result<(), OptError>
    requires { IsLive ctx.now.tree op }
    ensures ok { OnOk result (AlwaysAdds constraints.old.items constraints.new.items
        (λ now. (v : ℕ) → In v (results_of ctx.now.tree op) → now.lattice_value v ≡ Varies)) }
    ensures memory { IsOkUnless result OptError.Memory }
{
    for i in 0..op.num_result(ctx) {
        constraints.push(Constraint::Lower(op.get_result(ctx, i), LatticeCell::NotAConstant))?;
    }
    Ok(())
}

// The region's entry is entered, if it has one.
fn constrain_region(
    region: Ptr<Region>,
    ctx: &Context,
    constraints: &mut Vec<Constraint>,
) -> Result<(), OptError>
    requires { IsRegion ctx.now.tree region }
    ensures ok { OnOk result (AlwaysAdds constraints.old.items constraints.new.items
        (λ now. EntryIsExecutable ctx.now.tree now 0 region)) }
    ensures memory { IsOkUnless result OptError.Memory }
{
    match region.get_head(ctx) {
        Some(entry) => constrain_entry(entry, ctx, constraints),
        None => Ok(()),
    }
}

/// The entry of each region of the root is entered: its arguments are not constants.
///
/// Asks that the operation is live. Errors: allocation failure. Cost: one step for each region and for each
/// argument of an entry.
pub fn constrain_entries(
    op: Ptr<Operation>,
    ctx: &Context,
    constraints: &mut Vec<Constraint>,
) -> Result<(), OptError>
    requires { IsLive ctx.now.tree op }
    ensures ok { OnOk result (AlwaysAdds constraints.old.items constraints.new.items
        (λ now. ConstrainsEntries ctx.now.tree op now)) }
    ensures memory { IsOkUnless result OptError.Memory }
{
    for i in 0..op.num_region(ctx) {
        constrain_region(op.get_region(ctx, i), ctx, constraints)?;
    }
    Ok(())
}

// The value is no constant.
fn constrain_varying(value: Value, constraints: &mut Vec<Constraint>) -> Result<(), OptError>
    ensures ok { OnOk result (AlwaysAdds constraints.old.items constraints.new.items
        (λ now. now.lattice_value value ≡ Varies)) }
    ensures memory { IsOkUnless result OptError.Memory }
{
    constraints.push(Constraint::Lower(value, LatticeCell::NotAConstant))?;
    Ok(())
}

// The value is at or below the operand at this place, if there is one.
fn constrain_operand(
    op: Ptr<Operation>,
    place: usize,
    value: Value,
    ctx: &Context,
    tables: &Tables,
    constraints: &mut Vec<Constraint>,
) -> Result<(), OptError>
    requires { IsLive ctx.now.tree op }
    ensures ok { OnOk result (Adds (known_constants tables.now) constraints.old.items constraints.new.items
        (λ now. GetsForwarded (lattice_values_of tables.now) (operands_of ctx.now.tree op) now place value)) }
    ensures memory { IsOkUnless result OptError.Memory }
{
    if place < op.num_operand(ctx) {
        let cell = tables.cell(op.get_operand(ctx, place));
        constraints.push(Constraint::Lower(value, cell))?;
    }
    Ok(())
}

// The argument of the entry is at or below what the operation names for it.
fn constrain_named<D: Dialect>(
    entry: &RegionEntry,
    index: usize,
    ctx: &Context,
    tables: &Tables,
    constraints: &mut Vec<Constraint>,
) -> Result<(), OptError>
    requires live { IsLive ctx.now.tree entry.now.op }
    requires block { IsBlock ctx.now.tree entry.now.block }
    requires entry { IsEntryOf ctx.now.tree entry.now.op entry.now.region entry.now.block }
    requires argument { index < length (arguments_of ctx.now.tree entry.now.block) }
    ensures ok { OnOk result ((o : OperationOf) → op_at ctx.now.tree entry.now.op ≡ Some o → (v : ℕ) → slice_get
        (arguments_of ctx.now.tree entry.now.block) index ≡ Some v → Adds (known_constants tables.now)
        constraints.old.items constraints.new.items (λ now. GetsNamed ⟦<D as HasFolding>⟧.folding ctx.now.tree
        (lattice_values_of tables.now) o entry.now.region now index v)) }
    ensures memory { IsOkUnless result OptError.Memory }
{
    let argument = entry.block.get_argument(ctx, index);
    match D::entry_operand(entry.op, ctx, entry.region, index) {
        Some(place) => constrain_operand(entry.op, place, argument, ctx, tables, constraints),
        None => constrain_varying(argument, constraints),
    }
}

// The entry is executable, and its arguments are at or below what the operation names for them.
fn constrain_named_entry<D: Dialect>(
    entry: &RegionEntry,
    ctx: &Context,
    tables: &Tables,
    constraints: &mut Vec<Constraint>,
) -> Result<(), OptError>
    requires live { IsLive ctx.now.tree entry.now.op }
    requires block { IsBlock ctx.now.tree entry.now.block }
    requires entry { IsEntryOf ctx.now.tree entry.now.op entry.now.region entry.now.block }
    ensures ok { OnOk result ((o : OperationOf) → op_at ctx.now.tree entry.now.op ≡ Some o → Adds
        (known_constants tables.now) constraints.old.items constraints.new.items
        (λ now. IsTrue (now.is_executable entry.now.block) × AreBelowNamed ⟦<D as HasFolding>⟧.folding ctx.now.tree
        now.lattice_value (lattice_values_of tables.now).lattice_value o entry.now.region entry.now.block)) }
    ensures memory { IsOkUnless result OptError.Memory }
{
    constraints.push(Constraint::Enter(entry.block))?;
    for j in 0..entry.block.num_argument(ctx) {
        constrain_named::<D>(entry, j, ctx, tables, constraints)?;
    }
    Ok(())
}

// The entry of the region with this index, if it has one, is executable, with what the operation names for it.
fn constrain_invocation<D: Dialect>(
    op: Ptr<Operation>,
    region: usize,
    ctx: &Context,
    tables: &Tables,
    constraints: &mut Vec<Constraint>,
) -> Result<(), OptError>
    requires live { IsLive ctx.now.tree op }
    requires region { region < length (regions_of ctx.now.tree op) }
    ensures ok { OnOk result ((o : OperationOf) → op_at ctx.now.tree op ≡ Some o → (r : ℕ) → slice_get
        (regions_of ctx.now.tree op) region ≡ Some r → Adds (known_constants tables.now) constraints.old.items
        constraints.new.items (λ now. InvocationIsExecutable ⟦<D as HasFolding>⟧.folding ctx.now.tree
        (lattice_values_of tables.now) o now region r)) }
    ensures memory { IsOkUnless result OptError.Memory }
{
    match op.get_region(ctx, region).get_head(ctx) {
        Some(block) => {
            let entry = RegionEntry { op, region, block };
            constrain_named_entry::<D>(&entry, ctx, tables, constraints)
        }
        None => Ok(()),
    }
}

// The entry of each region is executable, and its arguments are at or below what the operation names for them.
fn constrain_invocations<D: Dialect>(
    op: Ptr<Operation>,
    ctx: &Context,
    tables: &Tables,
    constraints: &mut Vec<Constraint>,
) -> Result<(), OptError>
    requires { IsLive ctx.now.tree op }
    ensures ok { OnOk result ((o : OperationOf) → op_at ctx.now.tree op ≡ Some o → Adds (known_constants tables.now)
        constraints.old.items constraints.new.items (λ now. ConstrainsInvocations ⟦<D as HasFolding>⟧.folding
        ctx.now.tree (lattice_values_of tables.now) o now)) }
    ensures memory { IsOkUnless result OptError.Memory }
{
    for region in 0..op.num_region(ctx) {
        constrain_invocation::<D>(op, region, ctx, tables, constraints)?;
    }
    Ok(())
}

/// How many arguments are few. A block with more is constrained to be entered once.
const FEW_ARGUMENTS: usize = 8;

// Whether the block is still to be constrained to be entered. One with more than a few arguments is recorded,
// so that it is constrained once.
fn record_entry(
    block: Ptr<BasicBlock>,
    ctx: &Context,
    entered: &mut HashSet<u64>,
) -> Result<bool, OptError>
    requires { IsBlock ctx.now.tree block }
    ensures ok { IfOk result (λ due. RecordsEntry block entered.old entered.new due) }
    ensures memory { IsOkUnless result OptError.Memory }
{
    if block.num_argument(ctx) <= FEW_ARGUMENTS {
        return Ok(true);
    }
    Ok(entered.insert(block.key())?)
}

// The block is entered: a constraint, unless it was one before.
fn constrain_jump(
    block: Ptr<BasicBlock>,
    ctx: &Context,
    entered: &mut HashSet<u64>,
    constraints: &mut Vec<Constraint>,
) -> Result<(), OptError>
    requires { IsBlock ctx.now.tree block }
    ensures ok { OnOk result ((constants : List AttrObj) (f : LatticeValues) → AreEntriesExecutableWhere constants
        ctx.now.tree f constraints.old.items entered.old → AddsUnder f constants constraints.old.items
        constraints.new.items (λ now. IsEntryExecutable ctx.now.tree now block)) }
    ensures entered { OnOk result ((constants : List AttrObj) (f : LatticeValues) → AreEntriesExecutableWhere constants
        ctx.now.tree f constraints.old.items entered.old → AreEntriesExecutableWhere constants ctx.now.tree f
        constraints.new.items entered.new) }
    ensures memory { IsOkUnless result OptError.Memory }
{
    if record_entry(block, ctx, entered)? {
        constrain_entry(block, ctx, constraints)
    } else {
        Ok(())
    }
}

// Each successor is entered: a constraint on those that were not entered so before.
fn constrain_jumps(
    op: Ptr<Operation>,
    ctx: &Context,
    entered: &mut HashSet<u64>,
    constraints: &mut Vec<Constraint>,
) -> Result<(), OptError>
    requires { IsLive ctx.now.tree op }
    ensures ok { OnOk result ((constants : List AttrObj) (f : LatticeValues) → AreEntriesExecutable ctx.now.tree f
        entered.old → AddsUnder f constants constraints.old.items constraints.new.items
        (λ now. ConstrainsJumps ctx.now.tree op now)) }
    ensures entered { OnOk result ((constants : List AttrObj) (f : LatticeValues) → AreEntriesExecutable ctx.now.tree f
        entered.old → AreEntriesExecutableWhere constants ctx.now.tree f constraints.new.items entered.new) }
    ensures memory { IsOkUnless result OptError.Memory }
{
    for i in 0..op.num_successor(ctx) {
        constrain_jump(op.get_successor(ctx, i), ctx, entered, constraints)?;
    }
    Ok(())
}

/// The constant that is known of a value, for a fold.
#[inline(always)]
pub(crate) fn known_constant(
    alloc: Global,
    value: Value,
    tables: &Tables,
) -> Result<Option<AttrObj>, OptError>
    ensures ok { IfOk result (λ attr. attr ≡ known_of (lattice_value_in tables.now value)) }
    ensures memory { IsOkUnless result OptError.Memory }
{
    match tables.constant(value) {
        Some(attr) => Ok(Some(attr.copy(alloc)?)),
        None => Ok(None),
    }
}

/// Adds the constants that are known of the operands, for a fold.
#[inline(always)]
pub(crate) fn add_known(
    alloc: Global,
    op: Ptr<Operation>,
    ctx: &Context,
    tables: &Tables,
    attrs: &mut Vec<Option<AttrObj>>,
) -> Result<(), OptError>
    requires { IsLive ctx.now.tree op }
    ensures ok { OnOk result (attrs.new.items ≡ attrs.old.items ++ operand_constants (lattice_values_of tables.now)
        (operands_of ctx.now.tree op)) }
    ensures memory { IsOkUnless result OptError.Memory }
{
    for i in 0..op.num_operand(ctx) {
        attrs.push(known_constant(alloc, op.get_operand(ctx, i), tables)?)?;
    }
    Ok(())
}

// What is known of one of these values.
fn forwarded_cell(values: &[Value], j: usize, tables: &Tables) -> LatticeCell
    requires { j < length values.now }
    ensures { (w : ℕ) → slice_get values.now j ≡ Some w → Means (known_constants tables.now) result
        (lattice_value_in tables.now w) }
{
    tables.cell(values[j])
}

// The block is executable, and each argument that receives one of these values is at or below its lattice
// value.
fn constrain_forwarded(
    block: Ptr<BasicBlock>,
    values: &[Value],
    ctx: &Context,
    tables: &Tables,
    constraints: &mut Vec<Constraint>,
) -> Result<(), OptError>
    requires { IsBlock ctx.now.tree block }
    ensures ok { OnOk result (Adds (known_constants tables.now) constraints.old.items constraints.new.items
        (λ now. ConstrainsForwarded ctx.now.tree (lattice_values_of tables.now) block values.now now)) }
    ensures memory { IsOkUnless result OptError.Memory }
{
    constraints.push(Constraint::Enter(block))?;
    let count = block.num_argument(ctx).min(values.len());
    for j in 0..count {
        let cell = forwarded_cell(values, j, tables);
        constraints.push(Constraint::Lower(block.get_argument(ctx, j), cell))?;
    }
    Ok(())
}

// One block more.
fn add_block(blocks: &mut HashSet<u64>, block: Ptr<BasicBlock>) -> Result<(), OptError>
    ensures ok { OnOk result ((b : ℕ) → contains nat_eq blocks.new b ≡ (if nat_eq block b then true else contains nat_eq
        blocks.old b)) }
    ensures memory { IsOkUnless result OptError.Memory }
{
    blocks.insert(block.key())?;
    Ok(())
}

// The blocks that a branch may go to, where it folds.
fn branch_blocks<D: Dialect>(
    alloc: Global,
    op: Ptr<Operation>,
    ctx: &Context,
    known: &[Option<AttrObj>],
) -> Result<HashSet<u64>, OptError>
    requires live { IsLive ctx.now.tree op }
    requires folds { HeadPasses D.can_fold_branch ctx.now.tree op }
    requires entries { length known.now ≡ length (operands_of ctx.now.tree op) }
    ensures ok { IfOk result (λ blocks. (o : OperationOf) → op_at ctx.now.tree op ≡ Some o → (b : ℕ) → IsTrue
        (contains nat_eq blocks b) ↔ In b (D.feasible (shape_of D.meaning ctx.now.tree o) o.successors known.now)) }
    ensures memory { IsOkUnless result OptError.Memory }
{
    let targets = <D as BranchOpFoldInterface>::check_fold(alloc, op, ctx, known)?;
    let mut blocks = HashSet::new(alloc);
    for block in &targets {
        add_block(&mut blocks, *block)?;
    }
    Ok(blocks)
}

// The blocks that a branch may go to; `None` where it doesn't fold, and may go to all.
fn feasible_blocks<D: Dialect>(
    alloc: Global,
    op: Ptr<Operation>,
    ctx: &Context,
    known: &[Option<AttrObj>],
) -> Result<Option<HashSet<u64>>, OptError>
    requires live { IsLive ctx.now.tree op }
    requires entries { length known.now ≡ length (operands_of ctx.now.tree op) }
    ensures ok { IfOk result (λ blocks. AreFeasible D.meaning D.can_fold_branch D.feasible ctx.now.tree op known.now
        blocks) }
    ensures memory { IsOkUnless result OptError.Memory }
{
    if D::folds_branch(op, ctx) {
        let blocks = branch_blocks::<D>(alloc, op, ctx, known)?;
        Ok(Some(blocks))
    } else {
        Ok(None)
    }
}

// Whether the branch may go to the block.
fn may_go(feasible: &Option<HashSet<u64>>, block: Ptr<BasicBlock>) -> bool
    ensures { MayLead feasible.now block result }
{
    match feasible {
        Some(blocks) => blocks.contains(&block.key()),
        None => true,
    }
}

// Where the edge is feasible, its block is executable, with the values that it forwards.
fn constrain_edge<D: Dialect>(
    alloc: Global,
    branch: &Branch,
    i: usize,
    ctx: &Context,
    tables: &Tables,
    constraints: &mut Vec<Constraint>,
) -> Result<(), OptError>
    requires live { IsLive ctx.now.tree branch.now.op }
    requires branch { HeadPasses D.meaning.is_branch ctx.now.tree branch.now.op }
    requires edge { i < length (successors_of ctx.now.tree branch.now.op) }
    requires feasible { AreFeasible D.meaning D.can_fold_branch D.feasible ctx.now.tree branch.now.op
        (operand_constants (lattice_values_of tables.now) (operands_of ctx.now.tree branch.now.op))
        branch.now.feasible }
    ensures ok { OnOk result ((o : OperationOf) → op_at ctx.now.tree branch.now.op ≡ Some o → (b : ℕ) → slice_get
        (successors_of ctx.now.tree branch.now.op) i ≡ Some b → Adds (known_constants tables.now) constraints.old.items
        constraints.new.items (λ now. FollowsEdge ⟦<D as HasFolding>⟧.folding ctx.now.tree
        (lattice_values_of tables.now) o now i b)) }
    ensures memory { IsOkUnless result OptError.Memory }
{
    let block = branch.op.get_successor(ctx, i);
    if may_go(&branch.feasible, block) {
        let values = D::successor_operands(alloc, branch.op, ctx, i)?;
        constrain_forwarded(block, &values, ctx, tables, constraints)
    } else {
        Ok(())
    }
}

// Where an edge is feasible, its block is executable, with the values that it forwards.
fn constrain_each_edge<D: Dialect>(
    alloc: Global,
    branch: &Branch,
    ctx: &Context,
    tables: &Tables,
    constraints: &mut Vec<Constraint>,
) -> Result<(), OptError>
    requires live { IsLive ctx.now.tree branch.now.op }
    requires branch { HeadPasses D.meaning.is_branch ctx.now.tree branch.now.op }
    requires feasible { AreFeasible D.meaning D.can_fold_branch D.feasible ctx.now.tree branch.now.op
        (operand_constants (lattice_values_of tables.now) (operands_of ctx.now.tree branch.now.op))
        branch.now.feasible }
    ensures ok { OnOk result ((o : OperationOf) → op_at ctx.now.tree branch.now.op ≡ Some o → Adds
        (known_constants tables.now) constraints.old.items constraints.new.items
        (λ now. ConstrainsBranches ⟦<D as HasFolding>⟧.folding ctx.now.tree (lattice_values_of tables.now) o now)) }
    ensures memory { IsOkUnless result OptError.Memory }
{
    for i in 0..branch.op.num_successor(ctx) {
        constrain_edge::<D>(alloc, branch, i, ctx, tables, constraints)?;
    }
    Ok(())
}

// Each block that the branch may go to is executable, with the values that its edges forward. Answers these blocks,
// where it folds.
fn constrain_branches<D: Dialect>(
    alloc: Global,
    op: Ptr<Operation>,
    ctx: &Context,
    tables: &Tables,
    known: &[Option<AttrObj>],
    constraints: &mut Vec<Constraint>,
) -> Result<Option<HashSet<u64>>, OptError>
    requires live { IsLive ctx.now.tree op }
    requires branch { HeadPasses D.meaning.is_branch ctx.now.tree op }
    requires known { known.now ≡ operand_constants (lattice_values_of tables.now) (operands_of ctx.now.tree op) }
    ensures ok { OnOk result ((o : OperationOf) → op_at ctx.now.tree op ≡ Some o → Adds (known_constants tables.now)
        constraints.old.items constraints.new.items (λ now. ConstrainsBranches ⟦<D as HasFolding>⟧.folding ctx.now.tree
        (lattice_values_of tables.now) o now)) }
    ensures feasible { IfOk result (λ found. AreFound ⟦<D as HasFolding>⟧.folding ctx.now.tree
        (lattice_values_of tables.now) op found) }
    ensures memory { IsOkUnless result OptError.Memory }
{
    let feasible = feasible_blocks::<D>(alloc, op, ctx, known)?;
    let branch = Branch { op, feasible };
    constrain_each_edge::<D>(alloc, &branch, ctx, tables, constraints)?;
    Ok(branch.feasible)
}

// The result at this index, if there is one, is at or below the answer.
#[inline(always)]
fn constrain_answer(
    op: Ptr<Operation>,
    i: usize,
    answer: Option<AttrObj>,
    ctx: &Context,
    constraints: &mut Vec<Constraint>,
) -> Result<(), OptError>
    requires { IsLive ctx.now.tree op }
    ensures ok { OnOk result (AlwaysAdds constraints.old.items constraints.new.items (λ now. (v : ℕ) → slice_get
        (results_of ctx.now.tree op) i ≡ Some v → AtMost (now.lattice_value v) (value_of_answer answer))) }
    ensures memory { IsOkUnless result OptError.Memory }
{
    if i >= op.num_result(ctx) {
        return Ok(());
    }
    let value = op.get_result(ctx, i);
    constraints.push(match answer {
        Some(attr) => Constraint::Answer(value, attr),
        None => Constraint::Lower(value, LatticeCell::NotAConstant),
    })?;
    Ok(())
}

// Each result is at or below its answer.
#[inline(always)]
fn constrain_answers(
    op: Ptr<Operation>,
    ctx: &Context,
    answers: Vec<Option<AttrObj>>,
    constraints: &mut Vec<Constraint>,
) -> Result<(), OptError>
    requires { IsLive ctx.now.tree op }
    ensures ok { OnOk result (AlwaysAdds constraints.old.items constraints.new.items
        (λ now. ConstrainsAnswers (results_of ctx.now.tree op) answers.items now)) }
    ensures memory { IsOkUnless result OptError.Memory }
{
    let mut rest = answers;
    while let Some(answer) = rest.pop() {
        constrain_answer(op, rest.len(), answer, ctx, constraints)?;
    }
    Ok(())
}

// Results of what folds are at or below their answers, other results are not constants.
#[inline(always)]
fn constrain_results<D: Dialect>(
    alloc: Global,
    op: Ptr<Operation>,
    ctx: &Context,
    known: &[Option<AttrObj>],
    constraints: &mut Vec<Constraint>,
) -> Result<(), OptError>
    requires live { IsLive ctx.now.tree op }
    requires entries { length known.now ≡ length (operands_of ctx.now.tree op) }
    ensures ok { OnOk result ((o : OperationOf) → op_at ctx.now.tree op ≡ Some o → AlwaysAdds constraints.old.items
        constraints.new.items (λ now. ConstrainsResults D.can_fold (D.constants (shape_of D.meaning ctx.now.tree o)
        known.now) o now)) }
    ensures memory { IsOkUnless result OptError.Memory }
{
    if D::folds(op, ctx) {
        let answers = <D as ConstFoldInterface>::check_fold(alloc, op, ctx, known)?;
        constrain_answers(op, ctx, answers, constraints)
    } else {
        constrain_unknown(op, ctx, constraints)
    }
}

// The constraints of the operation's edges, in the scratch set. The blocks that it may go to are reported, where it
// folds as a branch.
fn constrain_edges<D: Dialect>(
    op: Ptr<Operation>,
    ctx: &Context,
    tables: &Tables,
    scratch: &mut Scratch,
    feasible: &mut Option<HashSet<u64>>,
) -> Result<(), OptError>
    requires live { IsLive ctx.now.tree op }
    requires known { scratch.old.known.items ≡ operand_constants (lattice_values_of tables.now)
        (operands_of ctx.now.tree op) }
    requires none { feasible.old ≡ None }
    requires entered { AreEntriesExecutable ctx.now.tree (lattice_values_of tables.now) scratch.old.entered }
    ensures ok { OnOk result ((o : OperationOf) → op_at ctx.now.tree op ≡ Some o → AddsUnder
        (lattice_values_of tables.now) (known_constants tables.now) scratch.old.constraints.items
        scratch.new.constraints.items (λ now. ConstrainsEdges ⟦<D as HasFolding>⟧.folding ctx.now.tree
        (lattice_values_of tables.now) op o now)) }
    ensures feasible { OnOk result (AreFound ⟦<D as HasFolding>⟧.folding ctx.now.tree (lattice_values_of tables.now) op
        feasible.new) }
    ensures entered { OnOk result (AreEntriesExecutableWhere (known_constants tables.now) ctx.now.tree
        (lattice_values_of tables.now) scratch.new.constraints.items scratch.new.entered) }
    ensures known { scratch.new.known ≡ scratch.old.known }
    ensures memory { IsOkUnless result OptError.Memory }
{
    if D::is_branch(op, ctx) {
        *feasible = constrain_branches::<D>(
            scratch.alloc,
            op,
            ctx,
            tables,
            &scratch.known,
            &mut scratch.constraints,
        )?;
        Ok(())
    } else {
        constrain_jumps(op, ctx, &mut scratch.entered, &mut scratch.constraints)
    }
}

/// The constraints of the operation: the entries of its regions are executable, their arguments are at or below
/// what it names for them, blocks that it may go to are executable with what is forwarded to them, and its
/// results are at or below what it answers. Reads the lattice values and writes the constraints in the scratch
/// set, in place of those there. Where the operation folds as a branch, reports the blocks that it may go to.
///
/// Asks that the operation is live (`is_live` tests it), that the blocks recorded in the scratch set are
/// entered under these lattice values, and for a place that is empty. Errors: allocation failure. Cost: one
/// step for each operand, result, region, successor and argument of these, and what the dialect's answers cost.
/// The arguments of a successor of what is no branch cost that once for all such operations, where they are
/// more than a few.
pub fn constraints_of<D: Dialect>(
    op: Ptr<Operation>,
    ctx: &Context,
    tables: &Tables,
    scratch: &mut Scratch,
    feasible: &mut Option<HashSet<u64>>,
) -> Result<(), OptError>
    requires live { IsLive ctx.now.tree op }
    requires none { feasible.old ≡ None }
    requires entered { AreEntriesExecutable ctx.now.tree (lattice_values_of tables.now) scratch.old.entered }
    ensures ok { OnOk result (Constrains (known_constants tables.now) ⟦<D as HasFolding>⟧.folding ctx.now.tree
        (lattice_values_of tables.now) op scratch.new.constraints.items) }
    ensures feasible { OnOk result (AreFound ⟦<D as HasFolding>⟧.folding ctx.now.tree (lattice_values_of tables.now) op
        feasible.new) }
    ensures entered { OnOk result (AreEntriesExecutableWhere (known_constants tables.now) ctx.now.tree
        (lattice_values_of tables.now) scratch.new.constraints.items scratch.new.entered) }
    ensures memory { IsOkUnless result OptError.Memory }
{
    scratch.known.clear();
    add_known(scratch.alloc, op, ctx, tables, &mut scratch.known)?;
    scratch.constraints.clear();
    constrain_invocations::<D>(op, ctx, tables, &mut scratch.constraints)?;
    constrain_edges::<D>(op, ctx, tables, scratch, feasible)?;
    constrain_results::<D>(
        scratch.alloc,
        op,
        ctx,
        &scratch.known,
        &mut scratch.constraints,
    )
}

// Satisfies one constraint, and does nothing else. Takes no memory.
#[inline(always)]
fn satisfy(demand: Constraint, tables: &mut Tables)
    requires { CanSatisfy tables.old (demand ∷ []) }
    ensures applied { IsApplied (known_constants tables.old) (demand ∷ []) tables.old tables.new }
    ensures stamped { StampsEachLowered tables.old tables.new }
{
    match demand {
        Constraint::Enter(block) => tables.mark_executable(block),
        Constraint::Lower(value, cell) => tables.lower(value, cell),
        Constraint::Answer(value, attr) => tables.answer(value, attr),
    }
}

/// Satisfies all constraints, and does nothing else: lowered values are put on their worklist. No constraint is
/// left then, and the list keeps its room. Takes no memory.
///
/// Asks that the blocks and the constants of the constraints have their numbers here. Cost: one step for each.
#[inline(always)]
pub fn satisfy_all(constraints: &mut Vec<Constraint>, tables: &mut Tables)
    requires { CanSatisfy tables.old constraints.old.items }
    ensures applied { IsApplied (known_constants tables.old) constraints.old.items tables.old tables.new }
    ensures stamped { StampsEachLowered tables.old tables.new }
{
    while let Some(demand) = constraints.pop() {
        satisfy(demand, tables);
    }
}
