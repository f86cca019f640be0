//! Replacing a value by a materialised constant.
ghost use Rattle.std.specs.Prelude.{◌≡◌, ◌≤◌, ℕ, None, OnOk, OnErr, length};
ghost use Rattle.pliron_core.specs.declared.attrs.Head.{Head};
ghost use Rattle.pliron_core.specs.Tree.{Tree, In, IsDefined, operands_of};
ghost use Rattle.pliron_core.specs.Invariant.{IsTree};
ghost use Rattle.pliron_core.specs.Writes.{after_replacing};
ghost use Rattle.pliron_core.specs.Erased.{after_erasing};
ghost use Rattle.pliron_core.specs.Insertion.{IsPointFor, after_inserting};
ghost use Rattle.pliron_core.specs.Changes.{IsSameTree};
ghost use Rattle.pliron_laws.specs.Outcomes.{IsMadeConstant, IsFreshConstant, materialised_at};

use pliron_core::{Context, NoMemory, Operation, Ptr, Rewriter, Value};

// The new operation is inserted at the rewriter's insertion point. Where that is refused it is erased again.
pub(crate) fn insert_or_erase<R: Rewriter>(
    ctx: &mut Context,
    constant: Ptr<Operation>,
    rewriter: &mut R,
) -> Result<(), NoMemory>
    requires fresh { (t : Tree) × (head : Head) × IsMadeConstant t ctx.old.tree constant head }
    requires point { IsPointFor ctx.old.tree (R.point rewriter.old) constant }
    ensures ok { OnOk result (ctx.new.tree ≡ after_inserting ctx.old.tree (R.point rewriter.old) constant) }
    ensures err { OnErr result (ctx.new.tree ≡ after_erasing ctx.old.tree constant) }
    ensures point { R.point rewriter.new ≡ R.point rewriter.old }
{
    ctx.well_formed();
    if let Err(refusal) = rewriter.insert_operation(ctx, constant) {
        rewriter.erase_operation(ctx, constant);
        return Err(refusal);
    }
    Ok(())
}

// The value `new`, which has no uses, gets those of `old`.
pub(crate) fn hand_over<R: Rewriter>(ctx: &mut Context, old: Value, new: Value, rewriter: &mut R)
    requires old { IsDefined ctx.old.tree old }
    requires new { IsDefined ctx.old.tree new }
    requires unused { (k : ℕ) → In new (operands_of ctx.old.tree k) → ⊥ }
    ensures replaced { ctx.new.tree ≡ after_replacing ctx.old.tree old new }
    ensures point { R.point rewriter.new ≡ R.point rewriter.old }
{
    ctx.well_formed();
    match rewriter.replace_value_uses_with(ctx, old, new) {
        Ok(()) => {}
        Err(_) => unreachable!(),
    }
}

/// The new operation is inserted at the rewriter's insertion point, and its result gets the uses of the value.
///
/// Asks that the operation was just made, in no block, with one result, and that the rewriter may insert it.
/// Errors: allocation failure, after which the operation is erased again, so that the value is replaced at all
/// its uses or at none. Cost: the number of uses of the value, amortised, and what the rewriter's listener
/// costs.
pub fn put_constant<R: Rewriter>(
    ctx: &mut Context,
    constant: Ptr<Operation>,
    old: Value,
    rewriter: &mut R,
) -> Result<(), NoMemory>
    requires fresh { (t : Tree) × (head : Head) × IsFreshConstant t ctx.old.tree constant old head }
    requires point { IsPointFor ctx.old.tree (R.point rewriter.old) constant }
    ensures ok { OnOk result ((t : Tree) (head : Head) → IsFreshConstant t ctx.old.tree constant old head
        → ctx.new.tree ≡ materialised_at t (R.point rewriter.old) old head) }
    ensures tree { OnOk result (IsTree (after_inserting ctx.old.tree (R.point rewriter.old) constant)) }
    ensures err { OnErr result ((t : Tree) (head : Head) → IsFreshConstant t ctx.old.tree constant old head
        → IsSameTree t ctx.new.tree) }
    ensures longer { length ctx.old.tree.operations ≤ length ctx.new.tree.operations }
    ensures point { R.point rewriter.new ≡ R.point rewriter.old }
{
    ctx.well_formed();
    let new = constant.get_result(ctx, 0);
    insert_or_erase(ctx, constant, rewriter)?;
    ctx.well_formed();
    hand_over(ctx, old, new, rewriter);
    Ok(())
}
