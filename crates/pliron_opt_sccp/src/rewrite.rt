//! What the lattice values say is to be rewritten, the operations that fold and the constant arguments; and the
//! tree rewritten by it.
//!
//! What is known of the operands of all folds is one list, made while the tree is as it was searched; a fold
//! has its part of it from `start` to `end`.
ghost use Rattle.std.specs.Prelude.{◌≡◌, ◌≤◌, ◌<◌, ◌++◌, ℕ, List, [], Some, None, IsSome, IfOk, OnErr, OnOk, length, map, slice_get, slice_range, IsOkUnless};
ghost use Rattle.pliron_core.specs.Tree.{Tree, IsLive, IsBlock, operands_of};
ghost use Rattle.pliron_core.specs.Changes.{IsSameTree};
ghost use Rattle.pliron_laws.specs.InPlace.{ReportsChange};
ghost use Rattle.pliron_theory.specs.LatticeValues.{LatticeValues, operand_constants};
ghost use Rattle.pliron_theory.specs.Following.{Follows};
ghost use Rattle.pliron_theory.specs.Rewrites.{ReplacesArgument};
ghost use Rattle.pliron_opt_sccp.specs.LatticeTables.{lattice_values_of};
ghost use Rattle.pliron_opt_sccp.specs.Listed.{is_folding, AddsFold, AreFolds, AddsKnown, AreArguments};
ghost use Rattle.pliron_opt_sccp.specs.RewriteSteps.{IsFoldStep, AreFoldSteps, ReportsCreated, IsArgumentStep, AreArgumentSteps, AreKnownArguments, IsFound};
ghost use Rattle.pliron_opt_sccp.specs.Chain.{FoldsInTurn, FoldsPartly, KnownArgument, all_put, IsPartlyPut, IsRewrittenByConstants, IsPartlyRewritten, known_arguments};

use crate::constraints::{add_known, known_constant};
use crate::inside::all_blocks;
use crate::lattice_tables::Tables;
use pliron_core::{AttrObj, BasicBlock, Context, IRStatus, Operation, Ptr, Rewriter};
use pliron_laws::{ConstFoldInterface, Dialect, OptError, Room};
use pliron_theory::HasFolding;
use pliron_theory::rewrites::replace_argument_by_constant;
use std::alloc::Global;

/// An operation that folds, and where the constants that are known of its operands are in the list for all.
#[derive(Clone, Copy)]
pub struct Fold {
    pub(crate) op: Ptr<Operation>,
    pub(crate) start: usize,
    pub(crate) end: usize,
}

/// Operations that fold, and in one list the constants that are known of the operands of all of them.
#[derive(Drop)]
pub struct Folds {
    pub(crate) rows: Vec<Fold>,
    pub(crate) known: Vec<Option<AttrObj>>,
}

impl Folds {
    // No folds, with room for so many of one operand. Errors: allocation failure.
    fn with_capacity(alloc: Global, count: usize) -> Result<Folds, OptError>
        ensures none { IfOk result (λ folds. folds.rows.items ≡ []) }
        ensures memory { IsOkUnless result OptError.Memory }
    {
        let rows = Vec::with_capacity(alloc, count)?;
        let known = Vec::with_capacity(alloc, count)?;
        Ok(Folds { rows, known })
    }

    // What is known of the operands of one of the folds. Asks that its part lies within the list.
    fn known_of(&self, fold: Fold) -> &[Option<AttrObj>]
        requires rising { fold.start ≤ fold.end }
        requires within { fold.end ≤ length self.now.known.items }
        ensures { result.now ≡ slice_range self.now.known.items fold.start fold.end }
    {
        &self.known[fold.start..fold.end]
    }
}

/// An argument of a block that is a constant.
#[derive(Drop)]
pub struct ConstantArgument {
    pub(crate) block: Ptr<BasicBlock>,
    pub(crate) index: usize,
    pub(crate) attr: AttrObj,
}

/// What was found of a tree: the operations that fold and the constant arguments, both in executable blocks, in
/// pre-order.
#[derive(Drop)]
pub struct Replacements {
    pub(crate) folds: Folds,
    pub(crate) arguments: Vec<ConstantArgument>,
}

// Whether the operation folds and is in an executable block.
fn is_folded<D: Dialect>(op: Ptr<Operation>, ctx: &Context, tables: &Tables) -> bool
    requires { IsLive ctx.now.tree op }
    ensures { result ≡ is_folding D.can_fold ctx.now.tree (lattice_values_of tables.now) op }
{
    ctx.well_formed();
    let Some(block) = op.get_parent_block(ctx) else {
        return false;
    };
    if !tables.is_executable(block) {
        return false;
    }
    D::folds(op, ctx)
}

// Adds the fold of the operation, if it has one.
#[inline(always)]
fn add_fold<D: Dialect>(
    alloc: Global,
    op: Ptr<Operation>,
    ctx: &Context,
    tables: &Tables,
    folds: &mut Folds,
) -> Result<(), OptError>
    requires { IsLive ctx.now.tree op }
    ensures ok { OnOk result (AddsFold ⟦<D as HasFolding>⟧.folding ctx.now.tree (lattice_values_of tables.now) op
        folds.old folds.new) }
    ensures memory { IsOkUnless result OptError.Memory }
{
    if is_folded::<D>(op, ctx, tables) {
        let start = folds.known.len();
        add_known(alloc, op, ctx, tables, &mut folds.known)?;
        let end = folds.known.len();
        folds.rows.push(Fold { op, start, end })?;
    }
    Ok(())
}

/// The folds of the operations inside the root, in pre-order.
pub(crate) fn all_folds<D: Dialect>(
    alloc: Global,
    root: Ptr<Operation>,
    ctx: &Context,
    tables: &Tables,
) -> Result<Folds, OptError>
    requires { IsLive ctx.now.tree root }
    ensures ok { IfOk result (λ folds. AreFolds ⟦<D as HasFolding>⟧.folding ctx.now.tree root
        (lattice_values_of tables.now) folds) }
    ensures memory { IsOkUnless result OptError.Memory }
{
    ctx.well_formed();
    let mut folds = Folds::with_capacity(alloc, tables.constant_count())?;
    let mut at = root.next_in_preorder(root, ctx);
    while let Some(op) = at {
        add_fold::<D>(alloc, op, ctx, tables, &mut folds)?;
        at = op.next_in_preorder(root, ctx);
    }
    Ok(folds)
}

// Adds the constant arguments of an executable block, in the order of their indices.
fn add_arguments(
    alloc: Global,
    block: Ptr<BasicBlock>,
    ctx: &Context,
    tables: &Tables,
    arguments: &mut Vec<ConstantArgument>,
) -> Result<(), OptError>
    requires { IsBlock ctx.now.tree block }
    ensures ok { OnOk result (AddsKnown ctx.now.tree (lattice_values_of tables.now) block arguments.old.items
        arguments.new.items) }
    ensures memory { IsOkUnless result OptError.Memory }
{
    if !tables.is_executable(block) {
        return Ok(());
    }
    for index in 0..block.num_argument(ctx) {
        match known_constant(alloc, block.get_argument(ctx, index), tables)? {
            Some(attr) => arguments.push(ConstantArgument { block, index, attr })?,
            None => {}
        }
    }
    Ok(())
}

/// The constant arguments of the executable blocks inside the root, in pre-order.
pub(crate) fn all_arguments(
    alloc: Global,
    root: Ptr<Operation>,
    ctx: &Context,
    tables: &Tables,
) -> Result<Vec<ConstantArgument>, OptError>
    requires { IsLive ctx.now.tree root }
    ensures ok { IfOk result (λ arguments. AreArguments ctx.now.tree (lattice_values_of tables.now) arguments.items
        (known_arguments ctx.now.tree root (lattice_values_of tables.now))) }
    ensures memory { IsOkUnless result OptError.Memory }
{
    ctx.well_formed();
    let blocks = all_blocks(alloc, root, ctx)?;
    let mut arguments = Vec::new(alloc);
    for i in 0..blocks.len() {
        add_arguments(alloc, blocks[i], ctx, tables, &mut arguments)?;
    }
    Ok(arguments)
}

/// Folds one operation in place by lattice values of the first tree.
///
/// Asks that the tree came from the first one by such steps, so that the lattice values still hold of the
/// operation.
/// Errors: allocation failure, after which the tree is one that the dialect's `fold_in_place` leaves then: as it
/// was, or with constants for some of the answered results. Cost: that of the dialect's `fold_in_place`.
#[inline(always)]
pub fn fold_one<D: Dialect, R: Rewriter + Room>(
    alloc: Global,
    op: Ptr<Operation>,
    ctx: &mut Context,
    known: &[Option<AttrObj>],
    rewriter: &mut R,
) -> Result<IRStatus, OptError>
    requires step { (t₀ : Tree) × (root : ℕ) × (f₀ : LatticeValues) × IsFoldStep ⟦<D as HasFolding>⟧.folding t₀ root f₀
        ctx.old.tree op known.now }
    ensures ok { IfOk result (λ status. D.ConstFoldInterface.outcome ctx.old.tree ctx.new.tree op known.now
        (Some status)) }
    ensures refused { OnErr result (D.ConstFoldInterface.outcome ctx.old.tree ctx.new.tree op known.now None) }
    ensures reported { IfOk result (λ status. ReportsCreated status ctx.old.tree ctx.new.tree) }
    ensures stays { (k : ℕ) → IsLive ctx.old.tree k → IsLive ctx.new.tree k }
    ensures memory { IsOkUnless result OptError.Memory }
    ensures follows { (t₀ : Tree) (root : ℕ) (f₀ : LatticeValues) → IsFoldStep ⟦<D as HasFolding>⟧.folding t₀ root f₀
        ctx.old.tree op known.now → Follows ⟦<D as HasFolding>⟧.folding t₀ root f₀ ctx.new.tree }
{
    ctx.well_formed();
    rewriter.set_insertion_point_before_operation(op);
    let done = <D as ConstFoldInterface>::fold_in_place(alloc, op, ctx, known, rewriter);
    ctx.well_formed();
    done
}

/// Folds these operations in place, one after the other.
///
/// Asks that the tree came from the first one by such steps, so that the lattice values still hold of the
/// operations.
/// Errors: allocation failure, after some of the folds, each of them whole. Cost: that of the dialect's
/// `fold_in_place` for each.
pub fn fold_all<D: Dialect, R: Rewriter + Room>(
    alloc: Global,
    folds: &Folds,
    ctx: &mut Context,
    rewriter: &mut R,
) -> Result<IRStatus, OptError>
    requires steps { (t₀ : Tree) × (root : ℕ) × (f₀ : LatticeValues) × AreFoldSteps ⟦<D as HasFolding>⟧.folding t₀ root
        f₀ ctx.old.tree folds.now }
    ensures folded { OnOk result ((t₀ : Tree) (root : ℕ) (f₀ : LatticeValues) → AreFoldSteps ⟦<D as HasFolding>⟧.folding
        t₀ root f₀ ctx.old.tree folds.now → FoldsInTurn D.ConstFoldInterface.outcome t₀ f₀
        (map (λ fold. fold.op) folds.now.rows.items) ctx.old.tree ctx.new.tree) }
    ensures refused { OnErr result ((t₀ : Tree) (root : ℕ) (f₀ : LatticeValues)
        → AreFoldSteps ⟦<D as HasFolding>⟧.folding t₀ root f₀ ctx.old.tree folds.now
        → FoldsPartly D.ConstFoldInterface.outcome t₀ f₀ (map (λ fold. fold.op) folds.now.rows.items) ctx.old.tree
        ctx.new.tree) }
    ensures reported { IfOk result (λ status. ReportsCreated status ctx.old.tree ctx.new.tree) }
    ensures stays { (k : ℕ) → IsLive ctx.old.tree k → IsLive ctx.new.tree k }
    ensures memory { IsOkUnless result OptError.Memory }
    ensures follows { (t₀ : Tree) (root : ℕ) (f₀ : LatticeValues) → AreFoldSteps ⟦<D as HasFolding>⟧.folding t₀ root f₀
        ctx.old.tree folds.now → Follows ⟦<D as HasFolding>⟧.folding t₀ root f₀ ctx.new.tree }
{
    let mut status = IRStatus::Unchanged;
    for i in 0..folds.rows.len() {
        let fold = folds.rows[i];
        let known = folds.known_of(fold);
        status |= fold_one::<D, R>(alloc, fold.op, ctx, known, rewriter)?;
    }
    Ok(status)
}

/// Puts a constant first in its block for an argument, by lattice values of the first tree.
///
/// Asks that the tree came from the first one by such steps, so that the lattice values still hold of the
/// argument.
/// Errors: allocation failure, which leaves the tree as it was but for erased handles. Cost: that of
/// `replace_argument_by_constant`.
pub fn put_argument<D: Dialect, R: Rewriter + Room>(
    alloc: Global,
    argument: &ConstantArgument,
    ctx: &mut Context,
    rewriter: &mut R,
) -> Result<IRStatus, OptError>
    requires step { (t₀ : Tree) × (root : ℕ) × (f₀ : LatticeValues) × IsArgumentStep ⟦<D as HasFolding>⟧.folding t₀ root
        f₀ ctx.old.tree argument.now }
    ensures ok { IfOk result (λ status. ReplacesArgument D.accepts D.constant_head argument.now.attr argument.now.block
        argument.now.index ctx.old.tree ctx.new.tree status) }
    ensures refused { OnErr result (IsSameTree ctx.old.tree ctx.new.tree) }
    ensures reported { IfOk result (λ status. ReportsCreated status ctx.old.tree ctx.new.tree) }
    ensures stays { (k : ℕ) → IsLive ctx.old.tree k → IsLive ctx.new.tree k }
    ensures memory { IsOkUnless result OptError.Memory }
    ensures follows { (t₀ : Tree) (root : ℕ) (f₀ : LatticeValues) → IsArgumentStep ⟦<D as HasFolding>⟧.folding t₀ root
        f₀ ctx.old.tree argument.now → Follows ⟦<D as HasFolding>⟧.folding t₀ root f₀ ctx.new.tree }
{
    let done = replace_argument_by_constant::<D, R>(
        alloc,
        argument.block,
        argument.index,
        &argument.attr,
        ctx,
        rewriter,
    );
    ctx.well_formed();
    done
}

/// Puts constants for these arguments, one after the other.
///
/// Asks that the tree came from the first one by such steps, so that the lattice values still hold of the
/// arguments.
/// Errors: allocation failure, after some of them. Cost: that of `replace_argument_by_constant` for each.
pub fn put_all<D: Dialect, R: Rewriter + Room>(
    alloc: Global,
    arguments: &[ConstantArgument],
    ctx: &mut Context,
    rewriter: &mut R,
) -> Result<IRStatus, OptError>
    requires steps { (t₀ : Tree) × (root : ℕ) × (f₀ : LatticeValues) × AreArgumentSteps ⟦<D as HasFolding>⟧.folding t₀
        root f₀ ctx.old.tree arguments.now }
    ensures puts { OnOk result ((t₀ : Tree) (root : ℕ) (f₀ : LatticeValues) → AreArgumentSteps
        ⟦<D as HasFolding>⟧.folding t₀ root f₀ ctx.old.tree arguments.now → (known : List KnownArgument)
        → AreKnownArguments t₀ arguments.now known → ctx.new.tree
        ≡ all_put D.accepts D.constant_head known ctx.old.tree) }
    ensures refused { OnErr result ((t₀ : Tree) (root : ℕ) (f₀ : LatticeValues) → AreArgumentSteps
        ⟦<D as HasFolding>⟧.folding t₀ root f₀ ctx.old.tree arguments.now → (known : List KnownArgument)
        → AreKnownArguments t₀ arguments.now known → IsPartlyPut D.accepts D.constant_head known ctx.old.tree
        ctx.new.tree) }
    ensures reported { IfOk result (λ status. ReportsCreated status ctx.old.tree ctx.new.tree) }
    ensures stays { (k : ℕ) → IsLive ctx.old.tree k → IsLive ctx.new.tree k }
    ensures memory { IsOkUnless result OptError.Memory }
    ensures follows { (t₀ : Tree) (root : ℕ) (f₀ : LatticeValues) → AreArgumentSteps ⟦<D as HasFolding>⟧.folding t₀ root
        f₀ ctx.old.tree arguments.now → Follows ⟦<D as HasFolding>⟧.folding t₀ root f₀ ctx.new.tree }
{
    let mut status = IRStatus::Unchanged;
    for i in 0..arguments.len() {
        status |= put_argument::<D, R>(alloc, &arguments[i], ctx, rewriter)?;
    }
    Ok(status)
}

/// Rewrites a tree by what was found of it: first the folds, then the arguments.
///
/// Asks that what was found is of this tree. Errors: allocation failure, after some whole rewrites. Cost: that of
/// `fold_in_place` for each fold, and of `replace_argument_by_constant` for each argument.
pub fn rewrite<D: Dialect, R: Rewriter + Room>(
    alloc: Global,
    found: &Replacements,
    ctx: &mut Context,
    rewriter: &mut R,
) -> Result<IRStatus, OptError>
    requires found { (root : ℕ) × (f : LatticeValues) × IsFound ⟦<D as HasFolding>⟧.folding D.can_fold ctx.old.tree root
        f found.now }
    ensures rewritten { OnOk result ((root : ℕ) (f : LatticeValues) → IsFound ⟦<D as HasFolding>⟧.folding D.can_fold
        ctx.old.tree root f found.now → IsRewrittenByConstants D.can_fold D.accepts D.constant_head
        D.ConstFoldInterface.outcome ctx.old.tree root f ctx.new.tree) }
    ensures refused { OnErr result ((root : ℕ) (f : LatticeValues) → IsFound ⟦<D as HasFolding>⟧.folding D.can_fold
        ctx.old.tree root f found.now → IsPartlyRewritten D.can_fold D.accepts D.constant_head
        D.ConstFoldInterface.outcome ctx.old.tree root f ctx.new.tree) }
    ensures reported { IfOk result (λ status. ReportsChange (Some status) ctx.old.tree ctx.new.tree) }
    ensures memory { IsOkUnless result OptError.Memory }
    ensures follows { (root : ℕ) (f : LatticeValues) → IsFound ⟦<D as HasFolding>⟧.folding D.can_fold ctx.old.tree root
        f found.now → Follows ⟦<D as HasFolding>⟧.folding ctx.old.tree root f ctx.new.tree }
{
    ctx.well_formed();
    let mut status = fold_all::<D, R>(alloc, &found.folds, ctx, rewriter)?;
    status |= put_all::<D, R>(alloc, &found.arguments, ctx, rewriter)?;
    Ok(status)
}
