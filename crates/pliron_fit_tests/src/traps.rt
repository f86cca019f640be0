//! A lawful dialect of which little is known: each operation traps, ends its block, and may have whatever counts,
//! results beside successors among them. Kind 9 implements `RegionBranch` and names nothing, so runs may not begin
//! there. No table says so: by roles what traps has no successors, and each head may be that of a root.
ghost use Rattle.std.specs.Prelude.{◌≡◌, Ok};
ghost use Rattle.pliron_laws.specs.Entries.{names_none};
ghost use Rattle.pliron_laws.specs.OperandFolding.{no_operand_folds, none_answered};
ghost use Rattle.pliron_fit_tests.specs.Traps.{traps, no_fold, no_kind, nine_interface, no_side_effects, no_removal, no_constants, no_blocks, no_attribute, no_constant_head, no_outcome, same_head};
ghost use Rattle.pliron_fit_tests.specs.Traps.{traps_counts, traps_effects, traps_forwards, traps_arguments, traps_answers, traps_jumps, traps_in_place, traps_makes, traps_names, traps_roots};

use pliron_core::{AttrObj, BasicBlock, Context, IRStatus, Operation, Ptr, Rewriter, Value};
use pliron_laws::{
    BlockArgRemoval, BranchOpFoldInterface, ConstFoldInterface, Dialect, HasMeaning, Interface,
    OpFoldResult, OperandFoldInterface, OptError, RegionBranchOpInterface, Room, SideEffects,
};
use std::alloc::Global;

pub struct Traps;

impl HasMeaning for Traps {
    ghost meaning = { traps };
}

impl SideEffects for Traps {
    ghost verdict = { λ t op r. r ≡ Ok tt };

    ghost side_effects = { no_side_effects };

    fn has_side_effects(_op: Ptr<Operation>, _ctx: &Context) -> Option<bool> {
        None
    }

    fn verify(_alloc: Global, _op: Ptr<Operation>, _ctx: &Context) -> Result<(), OptError> {
        Ok(())
    }
}

impl BlockArgRemoval for Traps {
    ghost verdict = { λ t op r. r ≡ Ok tt };

    ghost removable = { no_removal };

    fn can_remove_block_args(
        _op: Ptr<Operation>,
        _ctx: &Context,
        _block: Ptr<BasicBlock>,
    ) -> Option<bool> {
        None
    }

    fn verify(_alloc: Global, _op: Ptr<Operation>, _ctx: &Context) -> Result<(), OptError> {
        Ok(())
    }
}

impl ConstFoldInterface for Traps {
    ghost verdict = { λ t op r. r ≡ Ok tt };

    ghost can_fold = { no_fold };

    ghost constants = { no_constants };

    ghost accepts = { no_attribute };

    ghost constant_head = { no_constant_head };

    ghost outcome = { no_outcome };

    #[tactic(auto, unfolding(crate::specs::Traps::no_fold))]
    fn folds(_op: Ptr<Operation>, _ctx: &Context) -> bool {
        false
    }

    fn check_fold(
        alloc: Global,
        _op: Ptr<Operation>,
        _ctx: &Context,
        _operand_attrs: &[Option<AttrObj>],
    ) -> Result<Vec<Option<AttrObj>>, OptError> {
        Ok(Vec::new(alloc))
    }

    #[tactic(auto, using(crate::specs::Traps::nothing_folds))]
    fn fold_in_place<R: Rewriter + Room>(
        _alloc: Global,
        _op: Ptr<Operation>,
        _ctx: &mut Context,
        _operand_attrs: &[Option<AttrObj>],
        _rewriter: &mut R,
    ) -> Result<IRStatus, OptError> {
        Ok(IRStatus::Unchanged)
    }

    fn materialize(
        _alloc: Global,
        _attr: &AttrObj,
        _ctx: &mut Context,
    ) -> Result<Option<Ptr<Operation>>, OptError> {
        Ok(None)
    }

    fn verify(_alloc: Global, _op: Ptr<Operation>, _ctx: &Context) -> Result<(), OptError> {
        Ok(())
    }
}

impl BranchOpFoldInterface for Traps {
    ghost verdict = { λ t op r. r ≡ Ok tt };

    ghost can_fold_branch = { no_fold };

    ghost feasible = { no_blocks };

    ghost outcome = { no_outcome };

    #[tactic(auto, unfolding(crate::specs::Traps::no_fold))]
    fn folds_branch(_op: Ptr<Operation>, _ctx: &Context) -> bool {
        false
    }

    fn check_fold(
        alloc: Global,
        _op: Ptr<Operation>,
        _ctx: &Context,
        _operand_attrs: &[Option<AttrObj>],
    ) -> Result<Vec<Ptr<BasicBlock>>, OptError> {
        Ok(Vec::new(alloc))
    }

    #[tactic(auto, using(crate::specs::Traps::nothing_folds))]
    fn fold_in_place<R: Rewriter + Room>(
        _alloc: Global,
        _op: Ptr<Operation>,
        _ctx: &mut Context,
        _operand_attrs: &[Option<AttrObj>],
        _rewriter: &mut R,
    ) -> Result<IRStatus, OptError> {
        Ok(IRStatus::Unchanged)
    }

    fn verify(_alloc: Global, _op: Ptr<Operation>, _ctx: &Context) -> Result<(), OptError> {
        Ok(())
    }
}

impl OperandFoldInterface for Traps {
    ghost operand_folds = { no_operand_folds };

    fn fold_to_operand(
        alloc: Global,
        _op: Ptr<Operation>,
        _ctx: &Context,
        _operand_attrs: &[Option<AttrObj>],
    ) -> Result<Vec<Option<OpFoldResult>>, OptError> {
        Ok(Vec::new(alloc))
    }
}

impl RegionBranchOpInterface for Traps {
    ghost verdict = { λ t op r. r ≡ Ok tt };

    ghost entry_operands = { names_none };

    fn entry_operand(
        _op: Ptr<Operation>,
        _ctx: &Context,
        _region: usize,
        _arg: usize,
    ) -> Option<usize> {
        None
    }

    fn verify(_alloc: Global, _op: Ptr<Operation>, _ctx: &Context) -> Result<(), OptError> {
        Ok(())
    }
}

impl Dialect for Traps {
    type Kind = u32;

    ghost is_of_kind = { no_kind };

    ghost has_interface = { nine_interface };

    ghost shortened = { same_head };

    fn is_kind(op: Ptr<Operation>, ctx: &Context, kind: u32) -> bool {
        op.head(ctx).kind == kind
    }

    fn implements(op: Ptr<Operation>, ctx: &Context, interface: Interface) -> bool {
        match interface {
            Interface::RegionBranch => op.head(ctx).kind == 9,
            _ => false,
        }
    }

    #[tactic(auto, unfolding(crate::specs::Traps::traps))]
    fn admits(_op: Ptr<Operation>, _ctx: &Context) -> bool {
        true
    }

    #[tactic(auto, unfolding(crate::specs::Traps::traps))]
    fn is_terminator(_op: Ptr<Operation>, _ctx: &Context) -> bool {
        true
    }

    #[tactic(auto, unfolding(crate::specs::Traps::traps))]
    fn may_be_root(op: Ptr<Operation>, ctx: &Context) -> bool {
        op.head(ctx).kind != 9
    }

    #[tactic(auto, unfolding(crate::specs::Traps::traps))]
    fn is_branch(_op: Ptr<Operation>, _ctx: &Context) -> bool {
        false
    }

    #[tactic(auto, unfolding(crate::specs::Traps::traps))]
    fn successor_operands(
        alloc: Global,
        _op: Ptr<Operation>,
        _ctx: &Context,
        _i: usize,
    ) -> Result<Vec<Value>, OptError> {
        Ok(Vec::new(alloc))
    }

    #[tactic(auto, unfolding(crate::specs::Traps::traps), using(crate::specs::Traps::no_branch))]
    fn remove_successor_operand(
        op: Ptr<Operation>,
        ctx: &mut Context,
        _i: usize,
        j: usize,
    ) -> Value {
        Operation::remove_operand(ctx, op, j)
    }

    ghost keeps_counts = { traps_counts };

    ghost gives_at_once = { traps_effects };

    ghost forwards_operands = { traps_forwards };

    ghost acts_without_argument = { traps_arguments };

    ghost answers_true = { traps_answers };

    ghost answers_operands = { none_answered traps };

    ghost answers_jumps = { traps_jumps };

    ghost folds_in_place = { traps_in_place };

    ghost makes_constants = { traps_makes };

    ghost names_operands = { traps_names };

    ghost roots = { traps_roots };
}
