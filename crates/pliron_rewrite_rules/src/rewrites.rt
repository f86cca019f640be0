//! Whole rewrites that put an operation before another one.
//!
//! Each is wholly done or not at all, whatever it answers, and keeps runs.
ghost use Rattle.std.specs.Prelude.{◌≡◌, ℕ, List, Some, IsSome, IfOk, OnOk, OnErr, IsOkUnless, length, slice_get};
ghost use Rattle.pliron_core.specs.declared.attrs.Head.{Head as HeadOf};
ghost use Rattle.pliron_core.specs.declared.rewriter.OpInsertionPoint.TheVariants.{BeforeOperation};
ghost use Rattle.pliron_core.specs.Tree.{Tree, In, IsDefined, parent_of, results_of};
ghost use Rattle.pliron_core.specs.Changes.{IsSameTree};
ghost use Rattle.pliron_core.specs.Insertion.{IsPointFor, after_inserting};
ghost use Rattle.pliron_core.specs.Writes.{after_replacing};
ghost use Rattle.pliron_laws.specs.MaterialisedConstants.{IsRestored};
ghost use Rattle.pliron_laws.specs.Outcomes.{next_op, next_value};
ghost use Rattle.pliron_theory.specs.Keeps.{KeepsAllRuns};
ghost use Rattle.pliron_rewrite_rules.specs.Equations.{AreEqual};
ghost use Rattle.pliron_rewrite_rules.specs.Insertions.{after_making, with_operation, IsInsertable, IsMadeOperation};
ghost use Rattle.pliron_rewrite_rules.specs.Replacements.{IsAvailable};

use pliron_core::{Context, Head, NoMemory, Operation, Ptr, Rewriter, Value};
use pliron_laws::{Dialect, OptError, Room};
use std::alloc::Global;

// A new operation with this head, these operands and one result, in no block.
fn create_with_operands<R: Rewriter>(
    head: Head,
    operands: &[Value],
    ctx: &mut Context,
    rewriter: &mut R,
) -> Result<Ptr<Operation>, NoMemory>
    requires { (v : ℕ) → In v operands.now → IsDefined ctx.old.tree v }
    ensures ok { IfOk result (λ op. IsMadeOperation ctx.old.tree ctx.new.tree op head operands.now) }
    ensures err { OnErr result (IsRestored ctx.old.tree ctx.new.tree) }
    ensures point { R.point rewriter.new ≡ R.point rewriter.old }
{
    ctx.well_formed();
    let op = Operation::create(ctx, head, 1, 0)?;
    for value in operands {
        if let Err(refusal) = Operation::push_operand(ctx, op, *value) {
            ctx.well_formed();
            rewriter.erase_operation(ctx, op);
            return Err(refusal);
        }
    }
    Ok(op)
}

/// Inserts an operation that was just made at the rewriter's insertion point.
///
/// Asks that the operation is in no block, and for a point that fits. Errors: allocation failure, after which it is erased
/// again, so that the tree is as before it was made but for erased handles. Cost: constant.
pub fn insert_new_operation<R: Rewriter>(
    op: Ptr<Operation>,
    ctx: &mut Context,
    rewriter: &mut R,
) -> Result<(), NoMemory>
    requires fresh { (t : Tree) × (head : HeadOf) × (operands : List ℕ) × IsMadeOperation t ctx.old.tree op head
        operands }
    requires point { IsPointFor ctx.old.tree (R.point rewriter.old) op }
    ensures ok { OnOk result (ctx.new.tree ≡ after_inserting ctx.old.tree (R.point rewriter.old) op) }
    ensures err { OnErr result ((t : Tree) (head : HeadOf) (operands : List ℕ) → IsMadeOperation t ctx.old.tree op head
        operands → IsRestored t ctx.new.tree) }
    ensures point { R.point rewriter.new ≡ R.point rewriter.old }
{
    ctx.well_formed();
    if let Err(refusal) = rewriter.insert_operation(ctx, op) {
        ctx.well_formed();
        rewriter.erase_operation(ctx, op);
        return Err(refusal);
    }
    Ok(())
}

/// Puts a new operation with this head, these operands and one result just before `at`, and answers it. A replacement
/// by its result takes no memory in the rewriter's listener then. The rewriter inserts before `at` from now on.
///
/// Asks that `at` is in a block, that such an operation may be inserted, and that its operands are available there.
/// Errors: allocation failure, which leaves the tree as it was but for erased handles. Cost: the operands.
pub fn put_operation_before<D: Dialect, R: Rewriter + Room>(
    alloc: Global,
    at: Ptr<Operation>,
    head: Head,
    operands: &[Value],
    ctx: &mut Context,
    rewriter: &mut R,
) -> Result<Ptr<Operation>, OptError>
    requires placed { IsSome (parent_of ctx.old.tree at) }
    requires insertable { IsInsertable D.meaning head (length operands.now) }
    requires available { (v : ℕ) → In v operands.now → IsAvailable ctx.old.tree at v }
    ensures key { IfOk result (λ op. op ≡ next_op ctx.old.tree) }
    ensures ok { OnOk result (ctx.new.tree ≡ with_operation ctx.old.tree at head operands.now) }
    ensures refused { OnErr result (IsRestored ctx.old.tree ctx.new.tree) }
    ensures memory { IsOkUnless result OptError.Memory }
    ensures runs { KeepsAllRuns D.meaning ctx.old.tree ctx.new.tree }
    ensures point { R.point rewriter.new ≡ BeforeOperation at }
{
    rewriter.set_insertion_point_before_operation(at);
    // an insertion, and what the caller does with the result, or erasing on the way back
    rewriter.room(alloc, 3)?;
    ctx.well_formed();
    let made = create_with_operands(head, operands, ctx, rewriter);
    ctx.well_formed();
    let op = made?;
    let put = insert_new_operation(op, ctx, rewriter);
    ctx.well_formed();
    put?;
    Ok(op)
}
