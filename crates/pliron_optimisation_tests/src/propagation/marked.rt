//! A dialect whose made constants do not fold: the tiny dialect, but that a constant folds only where it
//! has a second attribute. What it makes for an attribute has one, so propagation does not see through it. No role
//! says so: the constants of a dialect by roles fold.
ghost use Rattle.std.specs.Prelude.{◌≡◌, Ok};
ghost use Rattle.pliron_core.specs.Tree.{IsLive};
ghost use Rattle.pliron_laws.specs.Answers.{ReadsHead};
ghost use Rattle.pliron_laws.specs.OperandFolding.{no_operand_folds, none_answered};
ghost use Rattle.pliron_evaluator.specs.Tiny.{tiny, tiny_side_effects, tiny_removable, tiny_constants, tiny_accepts, tiny_constant, tiny_folds_branch, tiny_feasible, tiny_outcome, has_tiny_kind, has_tiny_interface, tiny_shortened, tiny_entry_operands};
ghost use Rattle.pliron_evaluator.specs.TinyLaws.{tiny_counts, tiny_effects, tiny_arguments, tiny_jumps, tiny_in_place, tiny_makes};
ghost use Rattle.pliron_evaluator.specs.TinyEntries.{tiny_names, tiny_roots};
ghost use Rattle.pliron_optimisation_tests.specs.Marked.{marked_folds, marked_answers, marked_forwards};

use super::tiny::{
    block, leads_to, made_with, make_operation, propagate_operation, put, reads_argument,
    reads_result,
};
use pliron_core::{AttrObj, BasicBlock, Context, IRStatus, Operation, Ptr, Rewriter, Value};
use pliron_evaluator::{Tiny, TinyKind};
use pliron_laws::{
    BlockArgRemoval, BranchOpFoldInterface, ConstFoldInterface, Dialect, HasMeaning, Interface,
    OpFoldResult, OperandFoldInterface, OptError, RegionBranchOpInterface, Room, SideEffects,
};
use std::alloc::Global;
use std::process::Abort;

pub struct Marked;

impl HasMeaning for Marked {
    ghost meaning = { tiny };
}

impl SideEffects for Marked {
    ghost verdict = { λ t op r. r ≡ Ok tt };

    ghost side_effects = { tiny_side_effects };

    fn has_side_effects(op: Ptr<Operation>, ctx: &Context) -> Option<bool> {
        <Tiny as SideEffects>::has_side_effects(op, ctx)
    }

    fn verify(_alloc: Global, _op: Ptr<Operation>, _ctx: &Context) -> Result<(), OptError> {
        Ok(())
    }
}

impl BlockArgRemoval for Marked {
    ghost verdict = { λ t op r. r ≡ Ok tt };

    ghost removable = { tiny_removable };

    fn can_remove_block_args(
        op: Ptr<Operation>,
        ctx: &Context,
        block: Ptr<BasicBlock>,
    ) -> Option<bool> {
        <Tiny as BlockArgRemoval>::can_remove_block_args(op, ctx, block)
    }

    fn verify(_alloc: Global, _op: Ptr<Operation>, _ctx: &Context) -> Result<(), OptError> {
        Ok(())
    }
}

impl ConstFoldInterface for Marked {
    ghost verdict = { λ t op r. r ≡ Ok tt };

    ghost can_fold = { marked_folds };

    ghost constants = { tiny_constants };

    ghost accepts = { tiny_accepts };

    ghost constant_head = { tiny_constant };

    ghost outcome = { tiny_outcome };

    #[tactic(auto, unfolding(crate::specs::Marked::marked_folds))]
    fn folds(op: Ptr<Operation>, ctx: &Context) -> bool {
        <Tiny as ConstFoldInterface>::folds(op, ctx) && op.head(ctx).attrs.len() == 2
    }

    #[tactic(auto, using(crate::specs::Marked::folds_there))]
    fn check_fold(
        alloc: Global,
        op: Ptr<Operation>,
        ctx: &Context,
        operand_attrs: &[Option<AttrObj>],
    ) -> Result<Vec<Option<AttrObj>>, OptError> {
        <Tiny as ConstFoldInterface>::check_fold(alloc, op, ctx, operand_attrs)
    }

    #[tactic(auto, using(crate::specs::Marked::folds_there))]
    fn fold_in_place<R: Rewriter + Room>(
        alloc: Global,
        op: Ptr<Operation>,
        ctx: &mut Context,
        operand_attrs: &[Option<AttrObj>],
        rewriter: &mut R,
    ) -> Result<IRStatus, OptError> {
        <Tiny as ConstFoldInterface>::fold_in_place(alloc, op, ctx, operand_attrs, rewriter)
    }

    fn materialize(
        alloc: Global,
        attr: &AttrObj,
        ctx: &mut Context,
    ) -> Result<Option<Ptr<Operation>>, OptError> {
        <Tiny as ConstFoldInterface>::materialize(alloc, attr, ctx)
    }

    fn verify(_alloc: Global, _op: Ptr<Operation>, _ctx: &Context) -> Result<(), OptError> {
        Ok(())
    }
}

impl BranchOpFoldInterface for Marked {
    ghost verdict = { λ t op r. r ≡ Ok tt };

    ghost can_fold_branch = { tiny_folds_branch };

    ghost feasible = { tiny_feasible };

    ghost outcome = { tiny_outcome };

    fn folds_branch(op: Ptr<Operation>, ctx: &Context) -> bool {
        <Tiny as BranchOpFoldInterface>::folds_branch(op, ctx)
    }

    fn check_fold(
        alloc: Global,
        op: Ptr<Operation>,
        ctx: &Context,
        operand_attrs: &[Option<AttrObj>],
    ) -> Result<Vec<Ptr<BasicBlock>>, OptError> {
        <Tiny as BranchOpFoldInterface>::check_fold(alloc, op, ctx, operand_attrs)
    }

    fn fold_in_place<R: Rewriter + Room>(
        alloc: Global,
        op: Ptr<Operation>,
        ctx: &mut Context,
        operand_attrs: &[Option<AttrObj>],
        rewriter: &mut R,
    ) -> Result<IRStatus, OptError> {
        <Tiny as BranchOpFoldInterface>::fold_in_place(alloc, op, ctx, operand_attrs, rewriter)
    }

    fn verify(_alloc: Global, _op: Ptr<Operation>, _ctx: &Context) -> Result<(), OptError> {
        Ok(())
    }
}

impl OperandFoldInterface for Marked {
    ghost operand_folds = { no_operand_folds };

    fn fold_to_operand(
        alloc: Global,
        _op: Ptr<Operation>,
        _ctx: &Context,
        _operand_attrs: &[Option<AttrObj>],
    ) -> Result<Vec<Option<OpFoldResult>>, OptError> {
        Ok(Vec::new(alloc))
    }
}

impl RegionBranchOpInterface for Marked {
    ghost verdict = { λ t op r. r ≡ Ok tt };

    ghost entry_operands = { tiny_entry_operands };

    fn entry_operand(
        op: Ptr<Operation>,
        ctx: &Context,
        region: usize,
        arg: usize,
    ) -> Option<usize> {
        <Tiny as RegionBranchOpInterface>::entry_operand(op, ctx, region, arg)
    }

    fn verify(_alloc: Global, _op: Ptr<Operation>, _ctx: &Context) -> Result<(), OptError> {
        Ok(())
    }
}

impl Dialect for Marked {
    type Kind = TinyKind;

    ghost is_of_kind = { has_tiny_kind };

    ghost has_interface = { has_tiny_interface };

    ghost shortened = { tiny_shortened };

    fn is_kind(op: Ptr<Operation>, ctx: &Context, kind: TinyKind) -> bool {
        <Tiny as Dialect>::is_kind(op, ctx, kind)
    }

    fn implements(op: Ptr<Operation>, ctx: &Context, interface: Interface) -> bool {
        <Tiny as Dialect>::implements(op, ctx, interface)
    }

    fn admits(op: Ptr<Operation>, ctx: &Context) -> bool {
        <Tiny as Dialect>::admits(op, ctx)
    }

    fn is_terminator(op: Ptr<Operation>, ctx: &Context) -> bool {
        <Tiny as Dialect>::is_terminator(op, ctx)
    }

    fn may_be_root(op: Ptr<Operation>, ctx: &Context) -> bool {
        <Tiny as Dialect>::may_be_root(op, ctx)
    }

    fn is_branch(op: Ptr<Operation>, ctx: &Context) -> bool {
        <Tiny as Dialect>::is_branch(op, ctx)
    }

    fn successor_operands(
        alloc: Global,
        op: Ptr<Operation>,
        ctx: &Context,
        i: usize,
    ) -> Result<Vec<Value>, OptError> {
        <Tiny as Dialect>::successor_operands(alloc, op, ctx, i)
    }

    fn remove_successor_operand(
        op: Ptr<Operation>,
        ctx: &mut Context,
        i: usize,
        j: usize,
    ) -> Value {
        <Tiny as Dialect>::remove_successor_operand(op, ctx, i, j)
    }

    ghost keeps_counts = { tiny_counts };

    ghost gives_at_once = { tiny_effects };

    ghost forwards_operands = { marked_forwards };

    ghost acts_without_argument = { tiny_arguments };

    ghost answers_true = { marked_answers };

    ghost answers_operands = { none_answered tiny };

    ghost answers_jumps = { tiny_jumps };

    ghost folds_in_place = { tiny_in_place };

    ghost makes_constants = { tiny_makes };

    ghost names_operands = { tiny_names };

    ghost roots = { tiny_roots };
}

// A constant with a mark.
fn marked_constant(rt: &impl Abort, alloc: Global, ctx: &mut Context) -> Ptr<Operation> {
    let attrs = Vec::from_array(alloc, [AttrObj::Int(7), AttrObj::Int(0)]).expect(rt, "memory");
    made_with(rt, ctx, TinyKind::Const, attrs, 1, 0)
}

// A branch that ends one block and leads to the other.
fn branch(
    rt: &impl Abort,
    alloc: Global,
    ctx: &mut Context,
    from: Ptr<BasicBlock>,
    to: Ptr<BasicBlock>,
) -> Ptr<Operation> {
    let branch = make_operation(rt, alloc, ctx, TinyKind::Br, 0, 0);
    put(rt, ctx, branch, from);
    leads_to(rt, ctx, branch, to);
    branch
}

// The root, its second and its third block. A constant with a mark is forwarded to the second block, and what
// comes in there is forwarded to the third one, where a question reads it.
fn tree(
    rt: &impl Abort,
    alloc: Global,
    ctx: &mut Context,
) -> (Ptr<Operation>, Ptr<BasicBlock>, Ptr<BasicBlock>) {
    let root = make_operation(rt, alloc, ctx, TinyKind::Scope, 0, 1);
    let first = block(rt, ctx, root, 0);
    let second = block(rt, ctx, root, 1);
    let third = block(rt, ctx, root, 1);
    let constant = marked_constant(rt, alloc, ctx);
    put(rt, ctx, constant, first);
    let onward = branch(rt, alloc, ctx, first, second);
    reads_result(rt, ctx, onward, constant);
    let further = branch(rt, alloc, ctx, second, third);
    reads_argument(rt, ctx, further, second);
    let question = make_operation(rt, alloc, ctx, TinyKind::Ask, 1, 0);
    put(rt, ctx, question, third);
    reads_argument(rt, ctx, question, third);
    (root, second, third)
}

fn head_of(rt: &impl Abort, ctx: &Context, block: Ptr<BasicBlock>) -> Option<Ptr<Operation>> {
    assert!(rt; block.is_live(ctx));
    block.get_head(ctx)
}

fn propagates_in(rt: &impl Abort, alloc: Global, ctx: &mut Context) {
    let (root, second, third) = tree(rt, alloc, ctx);
    let (status, pops) = propagate_operation::<Marked>(rt, alloc, ctx, root);
    assert!(rt; status == IRStatus::Changed);
    // three blocks, three constants, an answer
    assert!(rt; 7 <= pops && pops <= 8);
    let made_second = head_of(rt, ctx, second);
    let made_third = head_of(rt, ctx, third);
    let (status, pops) = propagate_operation::<Marked>(rt, alloc, ctx, root);
    assert!(rt; status == IRStatus::Changed);
    // three blocks, the constant with the mark and the argument that gets it; two made constants, the
    // other argument and an answer
    assert!(rt; 9 <= pops && pops <= 13);
    assert!(rt; head_of(rt, ctx, second) != made_second);
    assert!(rt; head_of(rt, ctx, third) == made_third);
}

// Twice: each argument is a constant at first, and once constants are put for them only the one that gets the
// constant with the mark.
#[test]
fn made_constants_do_not_fold(rt: HostRuntime) {
    let alloc = rt.alloc();
    let mut ctx = Context::new(alloc);
    propagates_in(&rt, alloc, &mut ctx)
}
