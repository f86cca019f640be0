//! A jump in the place of a branch.
ghost use Rattle.std.specs.Prelude.{◌≡◌, ℕ, List, ◌∷◌, ◌≤◌, [], None, IsSome, OnOk, OnErr, length, IsOkUnless};
ghost use Rattle.pliron_core.specs.declared.rewriter.OpInsertionPoint.TheVariants.{BeforeOperation};
ghost use Rattle.pliron_core.specs.Tree.{In, IsLive, IsBlock, IsDefined, operands_of, successors_of, results_of, regions_of, parent_of};
ghost use Rattle.pliron_core.specs.Insertion.{IsPointFor, after_inserting};
ghost use Rattle.pliron_core.specs.Changes.{IsSameTree};
ghost use Rattle.pliron_laws.specs.Replacing.{with_edges, branch_replaced};

use pliron_core::{BasicBlock, Context, Head, NoMemory, Operation, Ptr, Rewriter, Value};
use pliron_laws::OptError;

// The new operation gets these operands and this successor. On allocation failure it has some of them.
fn add_edge(
    ctx: &mut Context,
    jump: Ptr<Operation>,
    values: &[Value],
    target: Ptr<BasicBlock>,
) -> Result<(), NoMemory>
    requires live { IsLive ctx.old.tree jump }
    requires no_operands { operands_of ctx.old.tree jump ≡ [] }
    requires no_successors { successors_of ctx.old.tree jump ≡ [] }
    requires values { (v : ℕ) → In v values.now → IsDefined ctx.old.tree v }
    requires target { IsBlock ctx.old.tree target }
    ensures ok { OnOk result (ctx.new.tree ≡ with_edges ctx.old.tree jump values.now (target ∷ [])) }
    ensures err { OnErr result ((given : List ℕ) × (ctx.new.tree ≡ with_edges ctx.old.tree jump given [])) }
{
    ctx.well_formed();
    for j in 0..values.len() {
        Operation::push_operand(ctx, jump, values[j])?;
    }
    Operation::push_successor(ctx, jump, target)?;
    Ok(())
}

// The new operation gets these operands and this successor, and is inserted at the rewriter's insertion point.
// On allocation failure it is in no block.
fn put_jump<R: Rewriter>(
    ctx: &mut Context,
    jump: Ptr<Operation>,
    values: &[Value],
    target: Ptr<BasicBlock>,
    rewriter: &mut R,
) -> Result<(), NoMemory>
    requires live { IsLive ctx.old.tree jump }
    requires no_operands { operands_of ctx.old.tree jump ≡ [] }
    requires no_successors { successors_of ctx.old.tree jump ≡ [] }
    requires values { (v : ℕ) → In v values.now → IsDefined ctx.old.tree v }
    requires target { IsBlock ctx.old.tree target }
    requires free { parent_of ctx.old.tree jump ≡ None }
    requires point { IsPointFor ctx.old.tree (R.point rewriter.old) jump }
    ensures ok { OnOk result (ctx.new.tree ≡ after_inserting (with_edges ctx.old.tree jump values.now (target ∷ []))
        (R.point rewriter.old) jump) }
    ensures err { OnErr result ((given blocks : List ℕ) × (ctx.new.tree ≡ with_edges ctx.old.tree jump given blocks)) }
    ensures point { R.point rewriter.new ≡ R.point rewriter.old }
{
    add_edge(ctx, jump, values, target)?;
    rewriter.insert_operation(ctx, jump)?;
    Ok(())
}

/// An operation with this head, these operands and this successor takes the place of the operation: a whole rewrite, or
/// none.
///
/// Asks that the operation is live in a block, has these operands among its own, and has no results and no regions, that
/// the successor is live, and that the rewriter inserts before the operation; a listener hears of two changes, for which
/// the caller takes room before. Errors: allocation failure, which leaves the tree as it was, but for erased handles.
/// Cost: linear in the operands and successors of both, and what the rewriter's listener costs.
pub fn replace_by_jump<R: Rewriter>(
    op: Ptr<Operation>,
    ctx: &mut Context,
    head: Head,
    values: &Vec<Value>,
    target: Ptr<BasicBlock>,
    rewriter: &mut R,
) -> Result<(), OptError>
    requires live { IsLive ctx.old.tree op }
    requires placed { IsSome (parent_of ctx.old.tree op) }
    requires values { (v : ℕ) → In v values.now.items → In v (operands_of ctx.old.tree op) }
    requires target { IsBlock ctx.old.tree target }
    requires no_results { results_of ctx.old.tree op ≡ [] }
    requires no_regions { regions_of ctx.old.tree op ≡ [] }
    requires point { R.point rewriter.old ≡ BeforeOperation op }
    ensures ok { OnOk result (ctx.new.tree ≡ branch_replaced ctx.old.tree op head values.now.items (target ∷ [])) }
    ensures refused { OnErr result (IsSameTree ctx.old.tree ctx.new.tree) }
    ensures memory { IsOkUnless result OptError.Memory }
    ensures longer { length ctx.old.tree.operations ≤ length ctx.new.tree.operations }
{
    ctx.well_formed();
    let jump = Operation::create(ctx, head, 0, 0)?;
    ctx.well_formed();
    match put_jump(ctx, jump, values.as_slice(), target, rewriter) {
        Ok(()) => {
            ctx.well_formed();
            rewriter.erase_operation(ctx, op);
            Ok(())
        }
        Err(refusal) => {
            ctx.well_formed();
            rewriter.erase_operation(ctx, jump);
            Err(OptError::from(refusal))
        }
    }
}
