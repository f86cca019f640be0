//! The dialect of some kinds.
ghost use Rattle.std.specs.Prelude.{◌≡◌, MatchResult, Ok, ◌∷◌, [], Some, IfOk, IfErr, OnOk, OnErr, IsSome, length};
ghost use Rattle.pliron_core.specs.Tree.{IsLive, operands_of};
ghost use Rattle.pliron_laws.specs.declared.fault.OptError.TheVariants.{Pass};
ghost use Rattle.pliron_dialect.specs.Roles.{role_at, meaning_by, effects_by, removable_by, folds_by, constants_by, branch_folds_by, feasible_by, is_of_number, interfaces_by, shortened_by, entry_operands_by, constant_head_of, allows_at};
ghost use Rattle.pliron_dialect.specs.CountLaws.{keeps_counts, gives_at_once, acts_without_argument, makes_constants, names_operands, roots};
ghost use Rattle.pliron_dialect.specs.FoldLaws.{answers_true, answers_jumps};
ghost use Rattle.pliron_dialect.specs.OperandLaws.{answers_operands};
ghost use Rattle.pliron_dialect.specs.BranchLaws.{forwards_operands};
ghost use Rattle.pliron_dialect.specs.Parts.{roles_fit, constants_allowed, jumps_allowed, constant_named, jump_named};
ghost use Rattle.pliron_dialect.specs.Outcomes.{outcome_by, branch_outcome_by, EdgesFit, folds_in_place};

use crate::choices::{admits_at, edge_for_number, edge_to_take};
use crate::edge_ranges::{edge_near, places_at, shorten};
use crate::folds::{answer_of, answers_of, makes_constant};
use crate::heads::attribute_head;
use crate::ranges::{all_successors, only_successor, operand_among, operands_at, place_among};
use crate::replace::jump_in_place;
use crate::roles::Roles;
use crate::tables::{begins_region, form_at, kind_at};
use crate::verify::edges_fit;
use pliron_core::{AttrObj, BasicBlock, Context, IRStatus, Operation, Ptr, Rewriter, Value};
use pliron_laws::{
    BlockArgRemoval, BranchOpFoldInterface, ConstFoldInterface, Dialect, HasMeaning, Interface,
    OptError, RegionBranchOpInterface, Room, SideEffects,
};
use std::alloc::Global;
use std::marker::PhantomData;

/// The dialect whose operations are of these kinds: what its tables say, it means and answers.
pub struct ByRoles<K>(PhantomData<K>);

impl<K: Roles> HasMeaning for ByRoles<K> {
    ghost meaning = { meaning_by K.tables.value (role_at K.tables) (allows_at K.tables) };
}

impl<K: Roles> SideEffects for ByRoles<K> {
    ghost verdict = { λ t op r. r ≡ Ok tt };

    ghost side_effects = { effects_by (role_at K.tables) };

    /// Cost: constant.
    #[tactic(auto, unfolding(crate::specs::Roles::effects_by))]
    fn has_side_effects(op: Ptr<Operation>, ctx: &Context) -> Option<bool> {
        match form_at::<K>(op, ctx) {
            Some(form) => form.side_effects(),
            None => None,
        }
    }

    fn verify(_alloc: Global, _op: Ptr<Operation>, _ctx: &Context) -> Result<(), OptError> {
        Ok(())
    }
}

impl<K: Roles> BlockArgRemoval for ByRoles<K> {
    ghost verdict = { λ t op r. r ≡ Ok tt };

    ghost removable = { removable_by (role_at K.tables) };

    /// Cost: constant.
    #[tactic(auto, unfolding(crate::specs::Roles::removable_by))]
    fn can_remove_block_args(
        op: Ptr<Operation>,
        ctx: &Context,
        block: Ptr<BasicBlock>,
    ) -> Option<bool> {
        match form_at::<K>(op, ctx) {
            Some(form) => form.removable(begins_region(ctx, block)),
            None => None,
        }
    }

    fn verify(_alloc: Global, _op: Ptr<Operation>, _ctx: &Context) -> Result<(), OptError> {
        Ok(())
    }
}

impl<K: Roles> ConstFoldInterface for ByRoles<K> {
    ghost verdict = { λ t op r. r ≡ Ok tt };

    ghost can_fold = { folds_by (role_at K.tables) };

    ghost constants = { constants_by (role_at K.tables) };

    ghost accepts = { K.tables.accepts };

    ghost constant_head = { constant_head_of (K.tables.number_of K.tables.constant)
        (K.tables.is_ssa K.tables.constant) };

    ghost outcome = { outcome_by K.tables.value (role_at K.tables) (allows_at K.tables) K.tables.accepts
        (K.tables.number_of K.tables.constant) (K.tables.is_ssa K.tables.constant) };

    /// Whether it is constant, computes or picks. Cost: constant.
    #[tactic(auto, unfolding(crate::specs::Roles::folds_by))]
    fn folds(op: Ptr<Operation>, ctx: &Context) -> bool {
        match form_at::<K>(op, ctx) {
            Some(form) => form.folds(),
            None => false,
        }
    }

    /// The attribute of a constant; what is computed of the operands, where all are known; what is known of the
    /// operand that is picked, where it is known which.
    ///
    /// Errors: allocation failure. Cost: the number of operands, and a copy of the attribute of a constant.
    fn check_fold(
        alloc: Global,
        op: Ptr<Operation>,
        ctx: &Context,
        operand_attrs: &[Option<AttrObj>],
    ) -> Result<Vec<Option<AttrObj>>, OptError> {
        match kind_at::<K>(op, ctx) {
            Some(kind) => {
                let answer = answer_of(alloc, kind, op.head(ctx), operand_attrs)?;
                let answers = answers_of(alloc, kind.form(), answer)?;
                Ok(answers)
            }
            None => Ok(Vec::new(alloc)),
        }
    }

    /// A constant stays as it is. For what computes or picks, a constant is put for the result where it is known.
    ///
    /// Errors: allocation failure. Cost: one step for each use of the result.
    fn fold_in_place<R: Rewriter + Room>(
        alloc: Global,
        op: Ptr<Operation>,
        ctx: &mut Context,
        operand_attrs: &[Option<AttrObj>],
        rewriter: &mut R,
    ) -> Result<IRStatus, OptError> {
        if makes_constant::<K>(op, ctx) {
            Ok(IRStatus::Unchanged)
        } else {
            Self::fold_with_materialization(alloc, op, ctx, operand_attrs, rewriter)
        }
    }

    /// A constant, for an attribute that the table accepts. Errors: allocation failure. Cost: constant.
    fn materialize(
        alloc: Global,
        attr: &AttrObj,
        ctx: &mut Context,
    ) -> Result<Option<Ptr<Operation>>, OptError> {
        if !K::accepts(attr) {
            return Ok(None);
        }
        let kind = K::constant();
        let head = attribute_head(alloc, kind.number(), kind.is_ssa(), attr.copy(alloc)?)?;
        Ok(Some(Operation::create(ctx, head, 1, 0)?))
    }

    fn verify(_alloc: Global, _op: Ptr<Operation>, _ctx: &Context) -> Result<(), OptError> {
        Ok(())
    }
}

impl<K: Roles> BranchOpFoldInterface for ByRoles<K> {
    ghost verdict = { λ t op r. MatchResult r (λ _. EdgesFit K.tables t op)
        (λ e. (e ≡ Pass 1) × (EdgesFit K.tables t op → ⊥)) };

    ghost can_fold_branch = { branch_folds_by (role_at K.tables) };

    ghost feasible = { feasible_by (role_at K.tables) };

    ghost outcome = { branch_outcome_by K.tables.value (role_at K.tables) (allows_at K.tables)
        (K.tables.number_of K.tables.jump) (K.tables.is_ssa K.tables.jump) };

    /// Whether it branches. Cost: constant.
    #[tactic(auto, unfolding(crate::specs::Roles::branch_folds_by))]
    fn folds_branch(op: Ptr<Operation>, ctx: &Context) -> bool {
        match form_at::<K>(op, ctx) {
            Some(form) => form.folds_branch(),
            None => false,
        }
    }

    /// Where the number of the first operand is known and the table has an edge for it, the block of that edge; else
    /// all blocks.
    ///
    /// Errors: allocation failure. Cost: that of the table, or the number of edges.
    fn check_fold(
        alloc: Global,
        op: Ptr<Operation>,
        ctx: &Context,
        operand_attrs: &[Option<AttrObj>],
    ) -> Result<Vec<Ptr<BasicBlock>>, OptError> {
        match edge_for_number::<K>(op, ctx, operand_attrs) {
            Some(edge) => {
                let one = only_successor(alloc, op, ctx, edge)?;
                Ok(one)
            }
            None => {
                let all = all_successors(alloc, op, ctx)?;
                Ok(all)
            }
        }
    }

    /// An admitted branch whose edge is known becomes a jump to the block of that edge, with the values that the edge
    /// forwards; anything else stays.
    ///
    /// Errors: allocation failure, after which the tree is as it was, but for erased handles. Cost: one step for
    /// each operand.
    fn fold_in_place<R: Rewriter + Room>(
        alloc: Global,
        op: Ptr<Operation>,
        ctx: &mut Context,
        operand_attrs: &[Option<AttrObj>],
        rewriter: &mut R,
    ) -> Result<IRStatus, OptError> {
        match edge_to_take::<K>(op, ctx, operand_attrs) {
            Some(edge) => {
                jump_in_place::<K, R>(alloc, op, ctx, edge, rewriter)?;
                Ok(IRStatus::Changed)
            }
            None => Ok(IRStatus::Unchanged),
        }
    }

    fn verify(_alloc: Global, op: Ptr<Operation>, ctx: &Context) -> Result<(), OptError> {
        if edges_fit::<K>(op, ctx) {
            Ok(())
        } else {
            Err(OptError::Pass(1))
        }
    }
}

impl<K: Roles> RegionBranchOpInterface for ByRoles<K> {
    ghost verdict = { λ t op r. r ≡ Ok tt };

    ghost entry_operands = { entry_operands_by (role_at K.tables) };

    /// Of what names operands the one that its table says. Cost: constant.
    fn entry_operand(
        op: Ptr<Operation>,
        ctx: &Context,
        region: usize,
        arg: usize,
    ) -> Option<usize> {
        match kind_at::<K>(op, ctx) {
            Some(kind) => kind.entry_operand(op.num_operand(ctx), region, arg),
            None => None,
        }
    }

    fn verify(_alloc: Global, _op: Ptr<Operation>, _ctx: &Context) -> Result<(), OptError> {
        Ok(())
    }
}

impl<K: Roles> Dialect for ByRoles<K> {
    type Kind = K;

    ghost is_of_kind = { is_of_number K.tables.number_of };

    ghost has_interface = { interfaces_by (role_at K.tables) };

    ghost shortened = { shortened_by (role_at K.tables) };

    /// Cost: constant.
    #[tactic(auto, unfolding(crate::specs::Roles::is_of_number))]
    fn is_kind(op: Ptr<Operation>, ctx: &Context, kind: K) -> bool {
        op.head(ctx).kind == kind.number()
    }

    /// `SideEffects` for what gives its results at once, what acts by its own tables and what forks,
    /// `BlockArgRemoval` for what acts by its own tables, `ConstFold` for what is constant, computes or picks,
    /// `BranchFold` for what chooses, `Branch` also for what jumps, `Terminator` also for what leaves, stops or forks.
    /// Cost: constant.
    #[tactic(auto, unfolding(crate::specs::Roles::interfaces_by))]
    fn implements(op: Ptr<Operation>, ctx: &Context, interface: Interface) -> bool {
        match form_at::<K>(op, ctx) {
            Some(form) => form.implements(interface),
            None => false,
        }
    }

    /// Whether there are such operations in the dialect: of its kind, with its attributes and counts. Cost:
    /// that of `admits_at`.
    fn admits(op: Ptr<Operation>, ctx: &Context) -> bool {
        admits_at::<K>(op, ctx)
    }

    /// Of every operation but what names operands. Cost: constant.
    #[tactic(auto, unfolding(crate::specs::Roles::meaning_by))]
    fn may_be_root(op: Ptr<Operation>, ctx: &Context) -> bool {
        match form_at::<K>(op, ctx) {
            Some(form) => !form.names(),
            None => true,
        }
    }

    /// Whether it jumps, chooses, leaves, stops or forks. Cost: constant.
    #[tactic(auto, unfolding(crate::specs::Roles::meaning_by))]
    fn is_terminator(op: Ptr<Operation>, ctx: &Context) -> bool {
        match form_at::<K>(op, ctx) {
            Some(form) => form.ends_block(),
            None => false,
        }
    }

    /// Whether it jumps or chooses. Cost: constant.
    #[tactic(auto, unfolding(crate::specs::Roles::meaning_by))]
    fn is_branch(op: Ptr<Operation>, ctx: &Context) -> bool {
        match form_at::<K>(op, ctx) {
            Some(form) => form.branches(),
            None => false,
        }
    }

    /// Of a jump all operands. Of those of a branch behind what it decides by, each edge forwards as many as its
    /// attribute counts, one edge after the other.
    ///
    /// Errors: allocation failure. Cost: one step for each value.
    fn successor_operands(
        alloc: Global,
        op: Ptr<Operation>,
        ctx: &Context,
        i: usize,
    ) -> Result<Vec<Value>, OptError> {
        let places = places_at::<K>(op, ctx, i);
        let values = operands_at(alloc, op, ctx, places)?;
        Ok(values)
    }

    /// Takes no memory. Cost: the number of edges before it.
    fn successor_operand(
        _alloc: Global,
        op: Ptr<Operation>,
        ctx: &Context,
        i: usize,
        j: usize,
    ) -> Result<Option<Value>, OptError> {
        let places = places_at::<K>(op, ctx, i);
        Ok(operand_among(op, ctx, places, j))
    }

    /// Of a jump, and of a branch with few edges up to that one. Cost: constant.
    fn forwarded_from(op: Ptr<Operation>, ctx: &Context, place: usize) -> Option<(usize, usize)> {
        let edge = edge_near::<K>(op, ctx, place);
        if edge >= op.num_successor(ctx) {
            return None;
        }
        match place_among(places_at::<K>(op, ctx, edge), place) {
            Some(index) => Some((edge, index)),
            None => None,
        }
    }

    /// A branch that lost a value of an edge counts one fewer there. Cost: that of `remove_operand`, and the number of
    /// edges before it.
    fn remove_successor_operand(
        op: Ptr<Operation>,
        ctx: &mut Context,
        i: usize,
        j: usize,
    ) -> Value {
        let places = places_at::<K>(op, ctx, i);
        let value = Operation::remove_operand(ctx, op, places.first + j);
        shorten::<K>(op, ctx, i);
        value
    }

    ghost keeps_counts = { keeps_counts K.tables.value (role_at K.tables) (allows_at K.tables)
        (roles_fit K.tables K.keeps_tables) };

    ghost gives_at_once = { gives_at_once K.tables.value (role_at K.tables) (allows_at K.tables)
        (roles_fit K.tables K.keeps_tables) };

    ghost forwards_operands = { forwards_operands K.tables.value (role_at K.tables) (allows_at K.tables)
        K.tables.number_of (roles_fit K.tables K.keeps_tables) };

    ghost acts_without_argument = { acts_without_argument K.tables.value (role_at K.tables) (allows_at K.tables) };

    ghost answers_true = { answers_true K.tables.value (role_at K.tables) (allows_at K.tables)
        (roles_fit K.tables K.keeps_tables) };

    ghost answers_operands = { answers_operands K.tables.value (role_at K.tables) (allows_at K.tables)
        (roles_fit K.tables K.keeps_tables) };

    ghost answers_jumps = { answers_jumps K.tables.value (role_at K.tables) (allows_at K.tables) };

    ghost folds_in_place = { folds_in_place K.tables.value (role_at K.tables) (allows_at K.tables) K.tables.accepts
        (K.tables.number_of K.tables.constant) (K.tables.is_ssa K.tables.constant) (K.tables.number_of K.tables.jump)
        (K.tables.is_ssa K.tables.jump) (jump_named K.tables K.keeps_tables) (jumps_allowed K.tables K.keeps_tables) };

    ghost makes_constants = { makes_constants K.tables.value (role_at K.tables) (allows_at K.tables) K.tables.accepts
        (K.tables.number_of K.tables.constant) (K.tables.is_ssa K.tables.constant)
        (constant_named K.tables K.keeps_tables) (constants_allowed K.tables K.keeps_tables) };

    ghost names_operands = { names_operands K.tables.value (role_at K.tables) (allows_at K.tables)
        (roles_fit K.tables K.keeps_tables) };

    ghost roots = { roots K.tables.value (role_at K.tables) (allows_at K.tables) };
}
