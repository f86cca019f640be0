//! A dialect with the operations of `Bench`, whose checks find more faults. No role says so.
ghost use Rattle.std.specs.Prelude.{◌≡◌, MatchResult, ⊤};
ghost use Rattle.pliron_core.specs.Tree.{IsLive};
ghost use Rattle.pliron_laws.specs.declared.fault.OptError.TheVariants.{Pass as Code};
ghost use Rattle.pliron_dialect_bench.specs.BenchMoves.{bench, bench_shortened};
ghost use Rattle.pliron_dialect_bench.specs.BenchAnswers.{bench_side_effects, bench_removable, bench_folds, bench_constants, bench_accepts, bench_constant_head, bench_outcome};
ghost use Rattle.pliron_dialect_bench.specs.BenchAnswers.{bench_operand_folds, bench_folds_branch, bench_feasible, bench_branch_outcome, bench_entry_operands, is_of_bench_kind, has_bench_interface};
ghost use Rattle.pliron_dialect_bench.specs.BenchLaws.{bench_counts, bench_effects, bench_forwards, bench_arguments, bench_answers, bench_operands, bench_jumps, bench_in_place, bench_makes, bench_names, bench_roots};

use pliron_core::{AttrObj, BasicBlock, Context, IRStatus, Operation, Ptr, Rewriter, Value};
use pliron_dialect_bench::{Bench, BenchKind};
use pliron_laws::{
    BlockArgRemoval, BranchOpFoldInterface, ConstFoldInterface, Dialect, HasMeaning, Interface,
    OpFoldResult, OperandFoldInterface, OptError, RegionBranchOpInterface, Room, SideEffects,
};
use std::alloc::Global;

/// The operations of `Bench`, with their meaning. Its checks answer code 2 for what has side effects
/// but for a scope with operands, code 3 for a product or a quotient, code 1 for a branch with an edge that does
/// not fit, and code 4 for a scope of more than one operand.
pub struct Strict;

// Whether it is a scope with operands.
fn passes_operands(op: Ptr<Operation>, ctx: &Context) -> bool
    requires { IsLive ctx.now.tree op }
{
    Bench::is_kind(op, ctx, BenchKind::Scope) && op.num_operand(ctx) > 0
}

impl HasMeaning for Strict {
    ghost meaning = { bench };
}

impl SideEffects for Strict {
    ghost verdict = { λ t op r. MatchResult r (λ _. ⊤) (λ e. e ≡ Code 2) };

    ghost side_effects = { bench_side_effects };

    fn has_side_effects(op: Ptr<Operation>, ctx: &Context) -> Option<bool> {
        <Bench as SideEffects>::has_side_effects(op, ctx)
    }

    fn verify(_alloc: Global, op: Ptr<Operation>, ctx: &Context) -> Result<(), OptError> {
        match <Bench as SideEffects>::has_side_effects(op, ctx) {
            Some(true) if !passes_operands(op, ctx) => Err(OptError::Pass(2)),
            _ => Ok(()),
        }
    }
}

impl BlockArgRemoval for Strict {
    ghost verdict = { λ t op r. MatchResult r (λ _. ⊤) (λ e. ⊥) };

    ghost removable = { bench_removable };

    fn can_remove_block_args(
        op: Ptr<Operation>,
        ctx: &Context,
        block: Ptr<BasicBlock>,
    ) -> Option<bool> {
        <Bench as BlockArgRemoval>::can_remove_block_args(op, ctx, block)
    }

    fn verify(_alloc: Global, _op: Ptr<Operation>, _ctx: &Context) -> Result<(), OptError> {
        Ok(())
    }
}

impl ConstFoldInterface for Strict {
    ghost verdict = { λ t op r. MatchResult r (λ _. ⊤) (λ e. e ≡ Code 3) };

    ghost can_fold = { bench_folds };

    ghost constants = { bench_constants };

    ghost accepts = { bench_accepts };

    ghost constant_head = { bench_constant_head };

    ghost outcome = { bench_outcome };

    fn folds(op: Ptr<Operation>, ctx: &Context) -> bool {
        <Bench as ConstFoldInterface>::folds(op, ctx)
    }

    fn check_fold(
        alloc: Global,
        op: Ptr<Operation>,
        ctx: &Context,
        operand_attrs: &[Option<AttrObj>],
    ) -> Result<Vec<Option<AttrObj>>, OptError> {
        <Bench as ConstFoldInterface>::check_fold(alloc, op, ctx, operand_attrs)
    }

    fn fold_in_place<R: Rewriter + Room>(
        alloc: Global,
        op: Ptr<Operation>,
        ctx: &mut Context,
        operand_attrs: &[Option<AttrObj>],
        rewriter: &mut R,
    ) -> Result<IRStatus, OptError> {
        <Bench as ConstFoldInterface>::fold_in_place(alloc, op, ctx, operand_attrs, rewriter)
    }

    fn materialize(
        alloc: Global,
        attr: &AttrObj,
        ctx: &mut Context,
    ) -> Result<Option<Ptr<Operation>>, OptError> {
        <Bench as ConstFoldInterface>::materialize(alloc, attr, ctx)
    }

    fn verify(_alloc: Global, op: Ptr<Operation>, ctx: &Context) -> Result<(), OptError> {
        if Bench::is_kind(op, ctx, BenchKind::Mul) | Bench::is_kind(op, ctx, BenchKind::Div) {
            Err(OptError::Pass(3))
        } else {
            Ok(())
        }
    }
}

impl BranchOpFoldInterface for Strict {
    ghost verdict = { λ t op r. MatchResult r (λ _. ⊤) (λ e. e ≡ Code 1) };

    ghost can_fold_branch = { bench_folds_branch };

    ghost feasible = { bench_feasible };

    ghost outcome = { bench_branch_outcome };

    fn folds_branch(op: Ptr<Operation>, ctx: &Context) -> bool {
        <Bench as BranchOpFoldInterface>::folds_branch(op, ctx)
    }

    fn check_fold(
        alloc: Global,
        op: Ptr<Operation>,
        ctx: &Context,
        operand_attrs: &[Option<AttrObj>],
    ) -> Result<Vec<Ptr<BasicBlock>>, OptError> {
        <Bench as BranchOpFoldInterface>::check_fold(alloc, op, ctx, operand_attrs)
    }

    fn fold_in_place<R: Rewriter + Room>(
        alloc: Global,
        op: Ptr<Operation>,
        ctx: &mut Context,
        operand_attrs: &[Option<AttrObj>],
        rewriter: &mut R,
    ) -> Result<IRStatus, OptError> {
        <Bench as BranchOpFoldInterface>::fold_in_place(alloc, op, ctx, operand_attrs, rewriter)
    }

    fn verify(alloc: Global, op: Ptr<Operation>, ctx: &Context) -> Result<(), OptError> {
        <Bench as BranchOpFoldInterface>::verify(alloc, op, ctx)
    }
}

impl OperandFoldInterface for Strict {
    ghost operand_folds = { bench_operand_folds };

    fn fold_to_operand(
        alloc: Global,
        op: Ptr<Operation>,
        ctx: &Context,
        operand_attrs: &[Option<AttrObj>],
    ) -> Result<Vec<Option<OpFoldResult>>, OptError> {
        Bench::fold_to_operand(alloc, op, ctx, operand_attrs)
    }
}

impl RegionBranchOpInterface for Strict {
    ghost verdict = { λ t op r. MatchResult r (λ _. ⊤) (λ e. e ≡ Code 4) };

    ghost entry_operands = { bench_entry_operands };

    fn entry_operand(
        op: Ptr<Operation>,
        ctx: &Context,
        region: usize,
        arg: usize,
    ) -> Option<usize> {
        Bench::entry_operand(op, ctx, region, arg)
    }

    fn verify(_alloc: Global, op: Ptr<Operation>, ctx: &Context) -> Result<(), OptError> {
        if op.num_operand(ctx) > 1 {
            Err(OptError::Pass(4))
        } else {
            Ok(())
        }
    }
}

impl Dialect for Strict {
    type Kind = BenchKind;

    ghost is_of_kind = { is_of_bench_kind };

    ghost has_interface = { has_bench_interface };

    ghost shortened = { bench_shortened };

    fn is_kind(op: Ptr<Operation>, ctx: &Context, kind: BenchKind) -> bool {
        Bench::is_kind(op, ctx, kind)
    }

    fn implements(op: Ptr<Operation>, ctx: &Context, interface: Interface) -> bool {
        Bench::implements(op, ctx, interface)
    }

    fn admits(op: Ptr<Operation>, ctx: &Context) -> bool {
        Bench::admits(op, ctx)
    }

    fn is_terminator(op: Ptr<Operation>, ctx: &Context) -> bool {
        Bench::is_terminator(op, ctx)
    }

    fn may_be_root(op: Ptr<Operation>, ctx: &Context) -> bool {
        Bench::may_be_root(op, ctx)
    }

    fn is_branch(op: Ptr<Operation>, ctx: &Context) -> bool {
        Bench::is_branch(op, ctx)
    }

    fn successor_operands(
        alloc: Global,
        op: Ptr<Operation>,
        ctx: &Context,
        i: usize,
    ) -> Result<Vec<Value>, OptError> {
        Bench::successor_operands(alloc, op, ctx, i)
    }

    fn remove_successor_operand(
        op: Ptr<Operation>,
        ctx: &mut Context,
        i: usize,
        j: usize,
    ) -> Value {
        Bench::remove_successor_operand(op, ctx, i, j)
    }

    ghost keeps_counts = { bench_counts };

    ghost gives_at_once = { bench_effects };

    ghost forwards_operands = { bench_forwards };

    ghost acts_without_argument = { bench_arguments };

    ghost answers_true = { bench_answers };

    ghost answers_operands = { bench_operands };

    ghost answers_jumps = { bench_jumps };

    ghost folds_in_place = { bench_in_place };

    ghost makes_constants = { bench_makes };

    ghost names_operands = { bench_names };

    ghost roots = { bench_roots };
}
