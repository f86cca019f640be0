//! An operation with two answered results, and what is left of its fold on allocation failure.
ghost use Rattle.std.specs.Prelude.{◌≡◌, ◌∷◌, [], ℕ, Some, Ok, OnOk, OnErr, IsOkUnless, IsSome, length, pos};
ghost use Rattle.pliron_core.specs.Tree.{IsLive, operands_of, results_of, parent_of};
ghost use Rattle.pliron_core.specs.Changes.{IsSameTree};
ghost use Rattle.pliron_core.specs.declared.attrs.AttrObj.TheVariants.{Int};
ghost use Rattle.pliron_dialect_bench.specs.declared.kind.BenchKind.TheVariants.{Pair};
ghost use Rattle.pliron_dialect_bench.specs.BenchMoves.{bench};
ghost use Rattle.pliron_dialect_bench.specs.BenchAnswers.{bench_accepts, bench_constant_head, is_of_bench_kind};
ghost use Rattle.pliron_laws.specs.Answers.{HeadPasses};
ghost use Rattle.pliron_laws.specs.InPlace.{materialising_outcome};
ghost use Rattle.pliron_allocation_failures.specs.Pairs.{both_put};

use crate::observation::Observation;
use pliron_core::{AttrObj, Context, IRRewriter, IRStatus, Operation, Ptr, Rewriter};
use pliron_dialect_bench::{Bench, BenchKind};
use pliron_laws::{ConstFoldInterface, Dialect, HasMeaning, OptError, Room};
use pliron_text::{print_text, read_text};
use std::alloc::Global;

/// The operations of `Bench`, of which a `pair` folds to what it gives: 1 and 2.
pub struct Pairs;

impl HasMeaning for Pairs {
    ghost meaning = { bench };
}

impl ConstFoldInterface for Pairs {
    ghost verdict = { λ t op r. r ≡ Ok tt };

    ghost can_fold = { λ h. is_of_bench_kind h Pair };

    ghost constants = { λ s known. Some (Int (pos 1)) ∷ Some (Int (pos 2)) ∷ [] };

    ghost accepts = { bench_accepts };

    ghost constant_head = { bench_constant_head };

    ghost outcome = { materialising_outcome bench (λ s known. Some (Int (pos 1)) ∷ Some (Int (pos 2)) ∷ [])
        bench_accepts bench_constant_head };

    fn folds(op: Ptr<Operation>, ctx: &Context) -> bool {
        Bench::is_kind(op, ctx, BenchKind::Pair)
    }

    fn check_fold(
        alloc: Global,
        _op: Ptr<Operation>,
        _ctx: &Context,
        _operand_attrs: &[Option<AttrObj>],
    ) -> Result<Vec<Option<AttrObj>>, OptError> {
        let mut answers = Vec::new(alloc);
        answers.push(Some(AttrObj::Int(1)))?;
        answers.push(Some(AttrObj::Int(2)))?;
        Ok(answers)
    }

    fn fold_in_place<R: Rewriter + Room>(
        alloc: Global,
        op: Ptr<Operation>,
        ctx: &mut Context,
        operand_attrs: &[Option<AttrObj>],
        rewriter: &mut R,
    ) -> Result<IRStatus, OptError> {
        Self::fold_with_materialization(alloc, op, ctx, operand_attrs, rewriter)
    }

    fn materialize(
        alloc: Global,
        attr: &AttrObj,
        ctx: &mut Context,
    ) -> Result<Option<Ptr<Operation>>, OptError> {
        Bench::materialize(alloc, attr, ctx)
    }

    fn verify(_alloc: Global, _op: Ptr<Operation>, _ctx: &Context) -> Result<(), OptError> {
        Ok(())
    }
}

/// A function with a pair whose results have several uses, and the same after the fold of the pair.
static BEFORE: &str = "func { b0(): v0, v1 = pair; sink v0 v1 v0 v1 v1; print v0; ret v1 v0 }";

static AFTER: &str =
    "func { b0(): v0 = const 1; v1 = const 2; v2, v3 = pair; sink v0 v1 v0 v1 v1; print v0; ret v1 v0 }";

// Folds a pair in place: constants are put for both results or, on allocation failure, for none.
//
// Asks that it is live in a block, is a pair, and has no operands and two results. Errors: allocation failure,
// after which the tree is as before, but for erased handles. Cost: the number of uses of its results.
fn fold_pair(alloc: Global, pair: Ptr<Operation>, ctx: &mut Context) -> Result<IRStatus, OptError>
    requires live { IsLive ctx.old.tree pair }
    requires placed { IsSome (parent_of ctx.old.tree pair) }
    requires folds { HeadPasses (λ h. is_of_bench_kind h Pair) ctx.old.tree pair }
    requires operands { length (operands_of ctx.old.tree pair) ≡ 0 }
    requires results { length (results_of ctx.old.tree pair) ≡ 2 }
    ensures both { OnOk result ((first : ℕ) × (second : ℕ) × (results_of ctx.old.tree pair ≡ first ∷ second ∷ []) ×
        (ctx.new.tree ≡
        both_put ctx.old.tree pair first second)) }
    ensures none { OnErr result (IsSameTree ctx.old.tree ctx.new.tree) }
    ensures memory { IsOkUnless result OptError.Memory }
{
    let mut rewriter = IRRewriter::new();
    rewriter.set_insertion_point_before_operation(pair);
    Pairs::fold_in_place(alloc, pair, ctx, &[], &mut rewriter)
}

// Folds the first operation inside the root, if it is a pair in a block.
fn fold_first(
    alloc: Global,
    root: Ptr<Operation>,
    ctx: &mut Context,
) -> Option<Result<IRStatus, OptError>>
    requires { IsLive ctx.old.tree root }
{
    let pair = root.next_in_preorder(root, ctx)?;
    if !Pairs::folds(pair, ctx) || pair.num_operand(ctx) != 0 || pair.num_result(ctx) != 2 {
        return None;
    }
    pair.get_parent_block(ctx)?;
    Some(fold_pair(alloc, pair, ctx))
}

fn check_in(alloc: Global, ctx: &mut Context) -> Result<Observation, OptError> {
    let Some(root) = read_text(alloc, BEFORE.as_bytes(), ctx)? else {
        return Ok(Observation::Wrong);
    };
    let Some(answer) = fold_first(alloc, root, ctx) else {
        return Ok(Observation::Wrong);
    };
    if !root.is_live(ctx) {
        return Ok(Observation::Wrong);
    }
    let line = print_text(alloc, root, ctx)?;
    Ok(match answer {
        Ok(_) => Observation::of_answer(line.as_str() == AFTER),
        Err(OptError::Memory) => Observation::of_refusal(line.as_str() == BEFORE),
        Err(_) => Observation::Wrong,
    })
}

/// What is seen of a fold with two answered results: the whole fold, or, where it is refused, the text as it
/// was. Errors: allocation failure beside the fold. Cost: constant.
pub fn check_folding(alloc: Global) -> Result<Observation, OptError> {
    let mut ctx = Context::new(alloc);
    check_in(alloc, &mut ctx)
}
