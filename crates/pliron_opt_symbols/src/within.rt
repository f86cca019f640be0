//! What is within an operation.
ghost use Rattle.std.specs.Prelude.{◌≡◌, ◌++◌, ◌↔◌, ℕ, All, IfOk, OnOk, IsOkUnless};
ghost use Rattle.pliron_core.specs.Tree.{In, IsLive, IsWithin};
ghost use Rattle.pliron_core.specs.Walks.{children, preorder};

use pliron_core::{Context, Operation, Ptr};
use pliron_laws::OptError;
use std::alloc::Global;

// Adds the operation and its contents.
fn push_within(
    root: Ptr<Operation>,
    ctx: &Context,
    ops: &mut Vec<Ptr<Operation>>,
) -> Result<(), OptError>
    requires { IsLive ctx.now.tree root }
    ensures items { OnOk result (ops.new.items ≡ ops.old.items ++ preorder ctx.now.tree root) }
    ensures memory { IsOkUnless result OptError.Memory }
{
    ctx.well_formed();
    let mut at = Some(root);
    while let Some(op) = at {
        ops.push(op)?;
        at = op.next_in_preorder(root, ctx);
    }
    Ok(())
}

// The operation and all that is inside it, at any depth. Errors: allocation failure. Cost: linear in them.
pub(crate) fn all_within(
    alloc: Global,
    op: Ptr<Operation>,
    ctx: &Context,
) -> Result<Vec<Ptr<Operation>>, OptError>
    requires { IsLive ctx.now.tree op }
    ensures within { IfOk result (λ found. (k : ℕ) → In k found.items ↔ IsWithin ctx.now.tree op k) }
    ensures live { IfOk result (λ found. All (λ k. IsLive ctx.now.tree k) found.items) }
    ensures memory { IsOkUnless result OptError.Memory }
{
    ctx.well_formed();
    let mut found = Vec::new(alloc);
    push_within(op, ctx, &mut found)?;
    Ok(found)
}

// The operations directly inside this one. Errors: allocation failure. Cost: linear in them, and in the empty blocks and
// regions between them.
pub(crate) fn all_directly_in(
    alloc: Global,
    holder: Ptr<Operation>,
    ctx: &Context,
) -> Result<Vec<Ptr<Operation>>, OptError>
    requires { IsLive ctx.now.tree holder }
    ensures inside { IfOk result (λ found. found.items ≡ children ctx.now.tree holder) }
    ensures live { IfOk result (λ found. All (λ op. IsLive ctx.now.tree op) found.items) }
    ensures memory { IsOkUnless result OptError.Memory }
{
    ctx.well_formed();
    let mut found = Vec::new(alloc);
    let mut at = holder.first_inside(ctx);
    while let Some(inner) = at {
        found.push(inner)?;
        at = inner.next_beside(ctx);
    }
    Ok(found)
}
