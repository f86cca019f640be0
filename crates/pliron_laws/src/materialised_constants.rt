//! Materialised constants, put before an operation, that are to replace some of its results.
//!
//! All are made before the first gets the uses of its result: until then they can be erased again, and from
//! then on nothing takes memory.
ghost use Rattle.std.specs.Prelude.{◌≡◌, ◌++◌, ◌∷◌, ◌<◌, ℕ, [], OnOk, OnErr, IsOkUnless, vec_len, vec_capacity};
ghost use Rattle.pliron_core.specs.Tree.{Tree};
ghost use Rattle.pliron_core.specs.Insertion.{IsPointFor, after_inserting};
ghost use Rattle.pliron_core.specs.Erased.{after_erasing};
ghost use Rattle.pliron_laws.specs.Datum.{Head};
ghost use Rattle.pliron_laws.specs.Outcomes.{IsMadeConstant};
ghost use Rattle.pliron_laws.specs.MaterialisedConstants.{ArePutBefore, AreUnused, IsRestored, all_replaced, insert_constant as insert_constant_for, status_of};

use crate::fault::OptError;
use crate::materialise::{hand_over, insert_or_erase};
use crate::room::Room;
use pliron_core::{Context, IRStatus, NoMemory, Operation, Ptr, Rewriter, Value};
use std::alloc::Global;

/// A materialised constant before an operation that is to replace one of its results, with that result and its
/// own.
#[derive(Clone, Copy)]
pub struct MaterialisedConstant {
    constant: Ptr<Operation>,
    old: Value,
    new: Value,
}

// Room for one more, in the list and in the listener of the rewriter.
pub(crate) fn take_room<R: Rewriter + Room>(
    alloc: Global,
    rewriter: &mut R,
    made: &mut Vec<MaterialisedConstant>,
) -> Result<(), OptError>
    ensures room { OnOk result (vec_len made.new < vec_capacity made.new) }
    ensures kept { made.new.items ≡ made.old.items }
    ensures memory { IsOkUnless result OptError.Memory }
    ensures point { R.point rewriter.new ≡ R.point rewriter.old }
{
    made.reserve(1)?;
    // an insertion, and for each constant a replacement, or erasing on the way back
    rewriter.room(alloc, made.len().saturating_add(2))
}

// The new operation is inserted at the rewriter's insertion point, and is to replace the value. Where that is
// refused it is erased again.
pub(crate) fn insert_constant<R: Rewriter>(
    ctx: &mut Context,
    constant: Ptr<Operation>,
    old: Value,
    rewriter: &mut R,
    made: &mut Vec<MaterialisedConstant>,
) -> Result<(), NoMemory>
    requires fresh { (t : Tree) × (head : Head) × IsMadeConstant t ctx.old.tree constant head }
    requires point { IsPointFor ctx.old.tree (R.point rewriter.old) constant }
    requires room { vec_len made.old < vec_capacity made.old }
    ensures ok { OnOk result (ctx.new.tree ≡ after_inserting ctx.old.tree (R.point rewriter.old) constant) }
    ensures made { OnOk result ((t : Tree) (head : Head) → IsMadeConstant t ctx.old.tree constant head → made.new.items
        ≡ made.old.items ++ insert_constant_for t old ∷ []) }
    ensures err { OnErr result (ctx.new.tree ≡ after_erasing ctx.old.tree constant) }
    ensures kept { OnErr result (made.new.items ≡ made.old.items) }
    ensures point { R.point rewriter.new ≡ R.point rewriter.old }
{
    ctx.well_formed();
    let new = constant.get_result(ctx, 0);
    insert_or_erase(ctx, constant, rewriter)?;
    made.push_reserved(MaterialisedConstant { constant, old, new });
    Ok(())
}

// Each constant gets the uses of the result that it replaces. Answers whether there are any. Takes no memory.
pub(crate) fn hand_over_all<R: Rewriter>(
    ctx: &mut Context,
    made: &[MaterialisedConstant],
    rewriter: &mut R,
) -> IRStatus
    requires { AreUnused made.now ctx.old.tree }
    ensures status { result ≡ status_of made.now }
    ensures replaced { ctx.new.tree ≡ all_replaced made.now ctx.old.tree }
    ensures point { R.point rewriter.new ≡ R.point rewriter.old }
{
    let mut status = IRStatus::Unchanged;
    for i in 0..made.len() {
        hand_over(ctx, made[i].old, made[i].new, rewriter);
        status = IRStatus::Changed;
    }
    status
}

// The constants are erased again, the last one first. Takes no memory.
pub(crate) fn erase_all<R: Rewriter>(
    ctx: &mut Context,
    mut made: Vec<MaterialisedConstant>,
    rewriter: &mut R,
)
    requires { (op : ℕ) × (t : Tree) × (u : Tree) × ArePutBefore op t made.items u × IsRestored u ctx.old.tree }
    ensures restored { (op : ℕ) (t u : Tree) → ArePutBefore op t made.items u → IsRestored u ctx.old.tree
        → IsRestored t ctx.new.tree }
    ensures point { R.point rewriter.new ≡ R.point rewriter.old }
{
    while let Some(last) = made.pop() {
        ctx.well_formed();
        rewriter.erase_operation(ctx, last.constant);
    }
}
