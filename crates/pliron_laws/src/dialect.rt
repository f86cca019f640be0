//! Dialects: what a pass may ask of an operation, and the laws that the answers keep.
//!
//! No function takes `self`: a dialect is a type, and its values are never needed. A `ghost` member above a
//! trait's last function is a table that the contracts speak of; those below it are the laws, which each
//! `impl` proves.
//!
//! Some laws hold by type. What the answer on side effects reads is an argument of `side_effects`, the
//! head; what the answer on removal reads are those of `removable`, the head, the region's index and
//! whether the block is the entry. The tests read the head alone, since `ReadsHead` says so. But for
//! `verify`, each error is allocation failure.
//!
//! A tree that was well linked is so after each call, whatever it answers. Calls with a `&Context` only read.
//! The contract of each other call names the tree that it leaves: `materialize` adds at most an admitted
//! operation that is in no block and has no edges; `remove_successor_operand` leaves edges and places, and an
//! operation that is still admitted; what the folds in place leave is made of such operations, put before
//! others, of other operands, and of a branch put in the place of one, with successors that the old one had.
ghost use Rattle.std.specs.Prelude.{◌≡◌, ◌<◌, ◌≤◌, ℕ, Bool, List, [], Option, Some, IfOk, IfSome, OnOk, OnErr, IsTrue, IsSome, length, IsOkUnless};
ghost use Rattle.pliron_core.specs.declared.attrs.AttrObj.{AttrObj as Attribute};
ghost use Rattle.pliron_core.specs.declared.rewriter.OpInsertionPoint.TheVariants.{BeforeOperation};
ghost use Rattle.std.specs.Prelude.{Result as ResultOf};
ghost use Rattle.pliron_laws.specs.declared.fault.OptError.{OptError as FaultName};
ghost use Rattle.pliron_core.specs.Tree.{Tree, IsLive, block_parent_operation_of, operands_of, successors_of, parent_of};
ghost use Rattle.pliron_laws.specs.Datum.{Head, Shape, Meaning};
ghost use Rattle.pliron_laws.specs.Folding.{Constants, Feasible, AnswersTrue, AnswersJumps, MakesConstants};
ghost use Rattle.pliron_laws.specs.Laws.{KeepsCounts, GivesAtOnce, ForwardsOperands, ActsWithoutArgument};
ghost use Rattle.pliron_laws.specs.MaterialisedConstants.{ArePutBefore, IsRestored, FoldsByConstants};
ghost use Rattle.pliron_laws.specs.InPlace.{Outcome, FoldsInPlace, PassSameTests, materialising_outcome};
ghost use Rattle.pliron_laws.specs.Answers.{ReadsHead, ReadsCounts, ReadsShape, ReadsEdges, ReadsPlace, HasEntryArgument, HeadPasses, AreForwarded, IsForwardedAt, IsForwardedOnce, HasPlace, LosesForwarded, IsMaterialised};
ghost use Rattle.pliron_laws.specs.OperandFolding.{AnswersOperands};
ghost use Rattle.pliron_laws.specs.Entries.{EntryOperands, NamesOperands, RootsNameNone};
ghost use Rattle.pliron_laws.specs.declared.dialect.Interface.{Interface as InterfaceName};
ghost use Rattle.pliron_laws.specs.declared.dialect.Interface.TheVariants.{RegionBranch};

use crate::fault::OptError;
use crate::materialised_constants::{
    MaterialisedConstant, erase_all, hand_over_all, insert_constant, take_room,
};
use crate::operand_folds::OperandFoldInterface;
use crate::room::Room;
use pliron_core::{AttrObj, BasicBlock, Context, IRStatus, Operation, Ptr, Rewriter, Value};
use std::alloc::Global;

/// What an operation may implement.
#[derive(Clone, Copy, Debug, PartialEq, Eq)]
pub enum Interface {
    SideEffects,
    BlockArgRemoval,
    ConstFold,
    BranchFold,
    Branch,
    Terminator,
    RegionBranch,
}

/// What the operations of a dialect mean. Contracts alone speak of it.
pub trait HasMeaning {
    ghost meaning: { Meaning };
}

/// Which operations have side effects.
pub trait SideEffects {
    // the answer for a head
    ghost side_effects: { Head → Option Bool };

    /// Whether the operation has side effects; `None` where it doesn't say. Reads the head alone. Asks that the
    /// operation is live (`is_live` tests it).
    fn has_side_effects(op: Ptr<Operation>, ctx: &Context) -> Option<bool>
        requires { IsLive ctx.now.tree op }
        ensures { ReadsHead side_effects ctx.now.tree op result };

    // what the check may answer for an operation
    ghost verdict: { Tree → ℕ → ResultOf (Unit {0}) FaultName → Type 0 };

    /// Verifies the operation. Asks that the operation is live (`is_live` tests it). Errors: the first fault
    /// that the dialect finds, or allocation failure.
    fn verify(alloc: Global, op: Ptr<Operation>, ctx: &Context) -> Result<(), OptError>
        requires { IsLive ctx.now.tree op }
        ensures { verdict ctx.now.tree op result };
}

/// Which arguments of blocks may be removed.
pub trait BlockArgRemoval {
    // the answer for a head, the index of a region and whether the block is its entry
    ghost removable: { Head → ℕ → Bool → Option Bool };

    /// Whether arguments of the block may be removed; `None` where the operation doesn't say. Reads the head,
    /// the index of the region, and whether the block is its entry.
    ///
    /// Asks that the operation is live and that the block is directly in one of its regions.
    fn can_remove_block_args(
        op: Ptr<Operation>,
        ctx: &Context,
        block: Ptr<BasicBlock>,
    ) -> Option<bool>
        requires live { IsLive ctx.now.tree op }
        requires block { block_parent_operation_of ctx.now.tree block ≡ Some op }
        ensures { ReadsPlace removable ctx.now.tree op block result };

    // what the check may answer for an operation
    ghost verdict: { Tree → ℕ → ResultOf (Unit {0}) FaultName → Type 0 };

    /// Verifies the operation. Asks that the operation is live (`is_live` tests it). Errors: the first fault
    /// that the dialect finds, or allocation failure.
    fn verify(alloc: Global, op: Ptr<Operation>, ctx: &Context) -> Result<(), OptError>
        requires { IsLive ctx.now.tree op }
        ensures { verdict ctx.now.tree op result };
}

/// Operations whose results are constants where their operands are.
pub trait ConstFoldInterface: HasMeaning {
    // whether an operation with this head folds
    ghost can_fold: { Head → Bool };

    // the constant of each result, under known constants
    ghost constants: { Constants };

    // whether a constant can be made of the attribute, and the head that it has then
    ghost accepts: { Attribute → Bool };

    ghost constant_head: { Attribute → Head };

    // what folding in place comes to
    ghost outcome: { Outcome };

    /// Whether the operation folds. Reads the head alone. Asks that the operation is live (`is_live` tests it).
    fn folds(op: Ptr<Operation>, ctx: &Context) -> bool
        requires { IsLive ctx.now.tree op }
        ensures { ReadsHead can_fold ctx.now.tree op result };

    /// The constant that each result has, where it is known, if the operands have these constants.
    /// Asks that the operation folds, and for one entry for each operand.
    ///
    /// Errors: allocation failure.
    fn check_fold(
        alloc: Global,
        op: Ptr<Operation>,
        ctx: &Context,
        operand_attrs: &[Option<AttrObj>],
    ) -> Result<Vec<Option<AttrObj>>, OptError>
        requires live { IsLive ctx.now.tree op }
        requires folds { HeadPasses can_fold ctx.now.tree op }
        requires entries { length operand_attrs.now ≡ length (operands_of ctx.now.tree op) }
        ensures ok { IfOk result (λ answers. ReadsShape Self.meaning (λ s. constants s operand_attrs.now) ctx.now.tree
            op answers.items) }
        ensures memory { IsOkUnless result OptError.Memory };

    /// Folds the operation in place, if its operands have these constants. Asks that the operation folds, for
    /// one entry for each operand, and for an insertion point just before it.
    ///
    /// Errors: allocation failure, after which the tree is one that the law on folding in place allows: as before,
    /// but for erased handles, or with constants for some of the answered results.
    fn fold_in_place<R: Rewriter + Room>(
        alloc: Global,
        op: Ptr<Operation>,
        ctx: &mut Context,
        operand_attrs: &[Option<AttrObj>],
        rewriter: &mut R,
    ) -> Result<IRStatus, OptError>
        requires live { IsLive ctx.old.tree op }
        requires placed { IsSome (parent_of ctx.old.tree op) }
        requires folds { HeadPasses can_fold ctx.old.tree op }
        requires entries { length operand_attrs.now ≡ length (operands_of ctx.old.tree op) }
        requires point { R.point rewriter.old ≡ BeforeOperation op }
        ensures ok { IfOk result (λ status. outcome ctx.old.tree ctx.new.tree op operand_attrs.now (Some status)) }
        ensures refused { OnErr result (outcome ctx.old.tree ctx.new.tree op operand_attrs.now Option.None) }
        ensures memory { IsOkUnless result OptError.Memory }
        ensures longer { length ctx.old.tree.operations ≤ length ctx.new.tree.operations };

    /// Folds the operation by constants: asks `check_fold` for the constants of its results, and puts, for each
    /// that is known and that `materialize` makes, a new operation just before, in the order of the results.
    /// When all are made, each gets all uses of its result. Most dialects fold in place by this call.
    ///
    /// Asks as `fold_in_place` does. Errors: allocation failure, after which the tree is as before, but for
    /// erased handles. Cost: that of `check_fold`, one `materialize` for each answer, and one step for each
    /// use of a result.
    fn fold_with_materialization<R: Rewriter + Room>(
        alloc: Global,
        op: Ptr<Operation>,
        ctx: &mut Context,
        operand_attrs: &[Option<AttrObj>],
        rewriter: &mut R,
    ) -> Result<IRStatus, OptError>
        requires live { IsLive ctx.old.tree op }
        requires placed { IsSome (parent_of ctx.old.tree op) }
        requires folds { HeadPasses can_fold ctx.old.tree op }
        requires entries { length operand_attrs.now ≡ length (operands_of ctx.old.tree op) }
        requires point { R.point rewriter.old ≡ BeforeOperation op }
        ensures ok { IfOk result (λ status. materialising_outcome Self.meaning constants accepts constant_head
            ctx.old.tree ctx.new.tree op operand_attrs.now (Some status)) }
        ensures refused { OnErr result (materialising_outcome Self.meaning constants accepts constant_head ctx.old.tree
            ctx.new.tree op operand_attrs.now Option.None) }
        ensures memory { IsOkUnless result OptError.Memory }
        ensures longer { length ctx.old.tree.operations ≤ length ctx.new.tree.operations }
        ensures point { R.point rewriter.new ≡ R.point rewriter.old }
    {
        ctx.well_formed();
        let answers = Self::check_fold(alloc, op, ctx, operand_attrs)?;
        let mut made = Vec::new(alloc);
        match Self::materialise_constants(alloc, op, ctx, &answers, rewriter, &mut made) {
            Ok(()) => Ok(hand_over_all(ctx, &made, rewriter)),
            Err(refusal) => {
                erase_all(ctx, made, rewriter);
                Err(refusal)
            }
        }
    }

    /// The first half of `fold_with_materialization`: for each answered result for which `materialize` makes a
    /// constant, puts that constant just before the operation, with no use yet.
    ///
    /// Asks that the operation is live in a block, for an insertion point just before it, and for an empty list
    /// of constants. Errors: allocation failure, after which the list has those that were made. Cost: one
    /// `materialize` for each answer.
    fn materialise_constants<R: Rewriter + Room>(
        alloc: Global,
        op: Ptr<Operation>,
        ctx: &mut Context,
        answers: &[Option<AttrObj>],
        rewriter: &mut R,
        made: &mut Vec<MaterialisedConstant>,
    ) -> Result<(), OptError>
        requires live { IsLive ctx.old.tree op }
        requires placed { IsSome (parent_of ctx.old.tree op) }
        requires point { R.point rewriter.old ≡ BeforeOperation op }
        requires none { made.old.items ≡ [] }
        ensures ok { OnOk result (FoldsByConstants accepts constant_head op answers.now ctx.old.tree made.new.items
            ctx.new.tree) }
        ensures refused { OnErr result ((u : Tree) × ArePutBefore op ctx.old.tree made.new.items u
            × IsRestored u ctx.new.tree) }
        ensures memory { IsOkUnless result OptError.Memory }
        ensures point { R.point rewriter.new ≡ R.point rewriter.old }
    {
        let count = op.num_result(ctx).min(answers.len());
        for i in 0..count {
            let Some(attr) = &answers[i] else {
                continue;
            };
            ctx.well_formed();
            let old = op.get_result(ctx, i);
            take_room(alloc, rewriter, made)?;
            let Some(constant) = Self::materialize(alloc, attr, ctx)? else {
                continue;
            };
            insert_constant(ctx, constant, old, rewriter, made)?;
        }
        Ok(())
    }

    /// A new operation that makes this constant, in no block; `None`, with nothing made, where the dialect has
    /// none for it.
    ///
    /// Errors: allocation failure, with nothing made.
    fn materialize(
        alloc: Global,
        attr: &AttrObj,
        ctx: &mut Context,
    ) -> Result<Option<Ptr<Operation>>, OptError>
        ensures ok { IfOk result (λ made. IsMaterialised accepts constant_head attr.now ctx.old.tree ctx.new.tree
            made) }
        ensures refused { OnErr result (ctx.new ≡ ctx.old) }
        ensures memory { IsOkUnless result OptError.Memory };

    // what the check may answer for an operation
    ghost verdict: { Tree → ℕ → ResultOf (Unit {0}) FaultName → Type 0 };

    /// Verifies the operation. Asks that the operation is live (`is_live` tests it). Errors: the first fault
    /// that the dialect finds, or allocation failure.
    fn verify(alloc: Global, op: Ptr<Operation>, ctx: &Context) -> Result<(), OptError>
        requires { IsLive ctx.now.tree op }
        ensures { verdict ctx.now.tree op result };
}

/// Branches that go to fewer blocks where their operands are constants.
pub trait BranchOpFoldInterface: HasMeaning {
    // whether an operation with this head folds as a branch
    ghost can_fold_branch: { Head → Bool };

    // the blocks that a branch may go to, under known constants
    ghost feasible: { Feasible };

    // what folding in place comes to
    ghost outcome: { Outcome };

    /// Whether the operation folds as a branch. Reads the head alone. Asks that the operation is live
    /// (`is_live` tests it).
    fn folds_branch(op: Ptr<Operation>, ctx: &Context) -> bool
        requires { IsLive ctx.now.tree op }
        ensures { ReadsHead can_fold_branch ctx.now.tree op result };

    /// The blocks that the branch may go to, if its operands have these constants. Asks that the
    /// operation folds as a branch, and for one entry for each operand.
    ///
    /// Errors: allocation failure.
    fn check_fold(
        alloc: Global,
        op: Ptr<Operation>,
        ctx: &Context,
        operand_attrs: &[Option<AttrObj>],
    ) -> Result<Vec<Ptr<BasicBlock>>, OptError>
        requires live { IsLive ctx.now.tree op }
        requires folds { HeadPasses can_fold_branch ctx.now.tree op }
        requires entries { length operand_attrs.now ≡ length (operands_of ctx.now.tree op) }
        ensures ok { IfOk result (λ blocks. ReadsEdges Self.meaning (λ s targets. feasible s targets operand_attrs.now)
            ctx.now.tree op blocks.items) }
        ensures memory { IsOkUnless result OptError.Memory };

    /// Folds the branch in place, if its operands have these constants. Asks that the operation folds as a
    /// branch, for one entry for each operand, and for an insertion point just before it.
    ///
    /// Errors: allocation failure, after which the tree is one that the law on folding in place allows: as before,
    /// but for erased handles, or with the branch replaced.
    fn fold_in_place<R: Rewriter + Room>(
        alloc: Global,
        op: Ptr<Operation>,
        ctx: &mut Context,
        operand_attrs: &[Option<AttrObj>],
        rewriter: &mut R,
    ) -> Result<IRStatus, OptError>
        requires live { IsLive ctx.old.tree op }
        requires placed { IsSome (parent_of ctx.old.tree op) }
        requires folds { HeadPasses can_fold_branch ctx.old.tree op }
        requires entries { length operand_attrs.now ≡ length (operands_of ctx.old.tree op) }
        requires point { R.point rewriter.old ≡ BeforeOperation op }
        ensures ok { IfOk result (λ status. outcome ctx.old.tree ctx.new.tree op operand_attrs.now (Some status)) }
        ensures refused { OnErr result (outcome ctx.old.tree ctx.new.tree op operand_attrs.now Option.None) }
        ensures memory { IsOkUnless result OptError.Memory }
        ensures longer { length ctx.old.tree.operations ≤ length ctx.new.tree.operations };

    // what the check may answer for an operation
    ghost verdict: { Tree → ℕ → ResultOf (Unit {0}) FaultName → Type 0 };

    /// Verifies the operation. Asks that the operation is live (`is_live` tests it). Errors: the first fault
    /// that the dialect finds, or allocation failure.
    fn verify(alloc: Global, op: Ptr<Operation>, ctx: &Context) -> Result<(), OptError>
        requires { IsLive ctx.now.tree op }
        ensures { verdict ctx.now.tree op result };
}

/// Operations that name, for arguments of the entries of their regions, the operands that every invocation
/// passes there, as structured loops and branches do.
pub trait RegionBranchOpInterface: HasMeaning {
    // the operand for a region's index and an argument's, where one is named
    ghost entry_operands: { EntryOperands };

    /// The operand, by its index, that every invocation of the region passes as this argument of its entry;
    /// `None` says nothing. Reads the counts and the head of the operation, and the two indices. Takes no
    /// memory.
    ///
    /// Asks that the operation is live (`is_live` tests it) and has the region, and that the region's entry has
    /// the argument.
    fn entry_operand(op: Ptr<Operation>, ctx: &Context, region: usize, arg: usize) -> Option<usize>
        requires live { IsLive ctx.now.tree op }
        requires argument { HasEntryArgument ctx.now.tree op region arg }
        ensures { ReadsShape Self.meaning (λ s. entry_operands s region arg) ctx.now.tree op result };

    // what the check may answer for an operation
    ghost verdict: { Tree → ℕ → ResultOf (Unit {0}) FaultName → Type 0 };

    /// Verifies the operation. Asks that the operation is live (`is_live` tests it). Errors: the first fault
    /// that the dialect finds, or allocation failure.
    fn verify(alloc: Global, op: Ptr<Operation>, ctx: &Context) -> Result<(), OptError>
        requires { IsLive ctx.now.tree op }
        ensures { verdict ctx.now.tree op result };
}

/// A dialect: its operations, what each means, and the laws that passes rest on.
pub trait Dialect: SideEffects
    + BlockArgRemoval
    + ConstFoldInterface
    + BranchOpFoldInterface
    + OperandFoldInterface
    + RegionBranchOpInterface {
    /// The kinds (opcodes) of its operations.
    type Kind: Copy + Eq;

    // whether an operation with this head is of the kind, and whether it implements the interface
    ghost is_of_kind: { Head → Self.Kind → Bool };

    ghost has_interface: { Head → InterfaceName → Bool };

    // the head of a branch that lost the operand at this place of this edge
    ghost shortened: { Shape → ℕ → ℕ → Head };

    /// Whether the operation is of this kind. Reads the head alone. Asks that the operation is live (`is_live`
    /// tests it).
    fn is_kind(op: Ptr<Operation>, ctx: &Context, kind: Self::Kind) -> bool
        requires { IsLive ctx.now.tree op }
        ensures { ReadsHead (λ h. is_of_kind h kind) ctx.now.tree op result };

    /// Whether the operation implements the interface. Reads the head alone. Asks that the operation is live
    /// (`is_live` tests it).
    fn implements(op: Ptr<Operation>, ctx: &Context, interface: Interface) -> bool
        requires { IsLive ctx.now.tree op }
        ensures { ReadsHead (λ h. has_interface h interface) ctx.now.tree op result };

    /// Whether the dialect has operations with this head and these counts. Asks that the operation is live
    /// (`is_live` tests it).
    fn admits(op: Ptr<Operation>, ctx: &Context) -> bool
        requires { IsLive ctx.now.tree op }
        ensures { ReadsCounts Self.meaning.admits ctx.now.tree op result };

    /// Whether the operation ends a block. Reads the head alone. Asks that the operation is live (`is_live`
    /// tests it).
    fn is_terminator(op: Ptr<Operation>, ctx: &Context) -> bool
        requires { IsLive ctx.now.tree op }
        ensures { ReadsHead Self.meaning.is_terminator ctx.now.tree op result };

    /// Whether runs may begin at the operation: for such roots alone runs are promised. This holds of each that
    /// does not implement `RegionBranch`: the regions of one that does may be rewritten by the operands of this
    /// one operation, and run by itself it may be given anything. Reads the head alone. Asks that the operation
    /// is live (`is_live` tests it).
    fn may_be_root(op: Ptr<Operation>, ctx: &Context) -> bool
        requires { IsLive ctx.now.tree op }
        ensures { ReadsHead Self.meaning.may_be_root ctx.now.tree op result };

    /// Whether the operation is a branch. Reads the head alone. Asks that the operation is live (`is_live`
    /// tests it).
    fn is_branch(op: Ptr<Operation>, ctx: &Context) -> bool
        requires { IsLive ctx.now.tree op }
        ensures { ReadsHead Self.meaning.is_branch ctx.now.tree op result };

    /// The operands that the branch forwards along its edge `i`. Asks that it is a branch with such an edge.
    ///
    /// Errors: allocation failure.
    fn successor_operands(
        alloc: Global,
        op: Ptr<Operation>,
        ctx: &Context,
        i: usize,
    ) -> Result<Vec<Value>, OptError>
        requires live { IsLive ctx.now.tree op }
        requires branch { HeadPasses Self.meaning.is_branch ctx.now.tree op }
        requires edge { i < length (successors_of ctx.now.tree op) }
        ensures ok { IfOk result (λ values. AreForwarded Self.meaning ctx.now.tree op i values.items) }
        ensures memory { IsOkUnless result OptError.Memory };

    /// The operand that the branch forwards at place `j` of its edge `i`; `None` where the edge has no
    /// such place. Asks that it is a branch with such an edge.
    ///
    /// Errors: allocation failure. Cost: that of `successor_operands`, which this body asks; a dialect that
    /// knows it in one step writes its own.
    fn successor_operand(
        alloc: Global,
        op: Ptr<Operation>,
        ctx: &Context,
        i: usize,
        j: usize,
    ) -> Result<Option<Value>, OptError>
        requires live { IsLive ctx.now.tree op }
        requires branch { HeadPasses Self.meaning.is_branch ctx.now.tree op }
        requires edge { i < length (successors_of ctx.now.tree op) }
        ensures ok { IfOk result (λ value. IsForwardedAt Self.meaning ctx.now.tree op i j value) }
        ensures memory { IsOkUnless result OptError.Memory }
    {
        let values = Self::successor_operands(alloc, op, ctx, i)?;
        Ok(values.get(j).copied())
    }

    /// Where the branch forwards its operand at this place: the edge, and the place there. `None` says
    /// nothing. Asks that it is a branch.
    ///
    /// Cost: constant. This body answers `None`; a dialect that knows it in one step writes its own.
    fn forwarded_from(_op: Ptr<Operation>, _ctx: &Context, _place: usize) -> Option<(usize, usize)>
        requires live { IsLive _ctx.now.tree _op }
        requires branch { HeadPasses Self.meaning.is_branch _ctx.now.tree _op }
        ensures { IfSome result (λ at. IsForwardedOnce Self.meaning _ctx.now.tree _op _place at.0 at.1) }
    {
        None
    }

    /// Removes the operand that the branch forwards at place `j` of its edge `i`, and answers it.
    /// Asks that it is a branch with such an edge and place. Takes no memory.
    fn remove_successor_operand(op: Ptr<Operation>, ctx: &mut Context, i: usize, j: usize) -> Value
        requires live { IsLive ctx.old.tree op }
        requires branch { HeadPasses Self.meaning.is_branch ctx.old.tree op }
        requires edge { i < length (successors_of ctx.old.tree op) }
        requires place { HasPlace Self.meaning ctx.old.tree op i j }
        ensures lost { LosesForwarded Self.meaning shortened ctx.old.tree ctx.new.tree op i j result }
        ensures block_uses { ctx.new.block_uses ≡ ctx.old.block_uses };

    // What has successors is a terminator, and transitions pass as many values as there are places for.
    ghost keeps_counts: { KeepsCounts Self.meaning };

    // What has no side effects gives its results at once.
    ghost gives_at_once: { GivesAtOnce Self.meaning Self.side_effects };

    // A branch passes along each edge the operands that it forwards there, and can lose each of them.
    ghost forwards_operands: { ForwardsOperands Self.meaning Self.can_fold
        (PassSameTests Self.meaning Self.can_fold Self.can_fold_branch is_of_kind has_interface) shortened };

    // Where an argument of an entry block may be removed, invocations of its region lose a value and nothing
    // else changes.
    ghost acts_without_argument: { ActsWithoutArgument Self.meaning Self.removable };

    // Each constant that folding answers is what the operation gives.
    ghost answers_true: { AnswersTrue Self.meaning Self.can_fold Self.constants };

    // Each operand, and each constant by equal operands, that folding answers for a result is what the operation gives.
    ghost answers_operands: { AnswersOperands Self.meaning Self.operand_folds };

    // A branch goes to one of the blocks that folding answers.
    ghost answers_jumps: { AnswersJumps Self.meaning Self.can_fold_branch Self.feasible };

    // Folding in place puts constants for results, or another branch in the place of one, or nothing; so too on
    // allocation failure, where what was begun is whole.
    ghost folds_in_place: { FoldsInPlace Self.meaning Self.constants Self.accepts Self.constant_head
        Self.ConstFoldInterface.outcome Self.BranchOpFoldInterface.outcome };

    // What is made for an attribute is a constant that gives its datum.
    ghost makes_constants: { MakesConstants Self.meaning Self.accepts Self.constant_head };

    // Each invocation of a region passes the operands that are named for the arguments of its entry.
    ghost names_operands: { NamesOperands Self.meaning Self.entry_operands (λ h. has_interface h RegionBranch) };

    // Runs may begin at each operation that names no operands, and at no other.
    ghost roots: { RootsNameNone Self.meaning (λ h. has_interface h RegionBranch) };
}
