//! What is directly inside an operation.
ghost use Rattle.std.specs.Prelude.{◌≡◌, All, IfOk, IsOkUnless};
ghost use Rattle.pliron_core.specs.Tree.{IsLive};
ghost use Rattle.pliron_core.specs.Walks.{children};

use pliron_core::{Context, Operation, Ptr};
use pliron_laws::OptError;
use std::alloc::Global;

// The operations directly inside this one. Errors: allocation failure. Cost: linear in them, and in the empty blocks and
// regions between them.
pub(crate) fn all_children(
    alloc: Global,
    holder: Ptr<Operation>,
    ctx: &Context,
) -> Result<Vec<Ptr<Operation>>, OptError>
    requires { IsLive ctx.now.tree holder }
    ensures inside { IfOk result (λ found. found.items ≡ children ctx.now.tree holder) }
    ensures live { IfOk result (λ found. All (λ op. IsLive ctx.now.tree op) found.items) }
    ensures memory { IsOkUnless result OptError.Memory }
{
    ctx.well_formed();
    let mut found = Vec::new(alloc);
    let mut at = holder.first_inside(ctx);
    while let Some(inner) = at {
        found.push(inner)?;
        at = inner.next_beside(ctx);
    }
    Ok(found)
}
