//! Whether a tree is well linked at an operation: structurally valid there.
ghost use Rattle.std.specs.Prelude.{◌↔◌, IsTrue};
ghost use Rattle.pliron_core.specs.Tree.{IsLive};
ghost use Rattle.pliron_laws.specs.Linked.{IsAdmitted, AllAdmitted, IsWellLinked};

use crate::dialect::Dialect;
use crate::edges::edges_last;
use pliron_core::{Context, Operation, Ptr};

/// Whether the dialect admits the operation, by its head and counts. Asks that the operation is live (`is_live`
/// tests it). Cost: that of `admits`.
pub fn is_admitted<D: Dialect>(op: Ptr<Operation>, ctx: &Context) -> bool
    requires { IsLive ctx.now.tree op }
    ensures { IsTrue result ↔ IsAdmitted D.meaning ctx.now.tree op }
{
    D::admits(op, ctx)
}

// Whether the dialect admits the operation and all that are inside it.
fn all_admitted<D: Dialect>(root: Ptr<Operation>, ctx: &Context) -> bool
    requires { IsLive ctx.now.tree root }
    ensures { IsTrue result ↔ AllAdmitted D.meaning ctx.now.tree root }
{
    ctx.well_formed();
    let mut at = Some(root);
    while let Some(op) = at {
        if !is_admitted::<D>(op, ctx) {
            return false;
        }
        at = op.next_in_preorder(root, ctx);
    }
    true
}

/// Whether the tree is well linked at `root`: edges inside it are last in their blocks, and the dialect admits
/// it and all operations inside it. The calls of passes ask for this.
///
/// Asks that `root` is live. Takes no memory. Cost: that of `edges_last`, and one call of `admits` for `root`
/// and each operation inside it.
pub fn is_well_linked<D: Dialect>(root: Ptr<Operation>, ctx: &Context) -> bool
    requires { IsLive ctx.now.tree root }
    ensures { IsTrue result ↔ IsWellLinked D.meaning ctx.now.tree root }
{
    edges_last(root, ctx) && all_admitted::<D>(root, ctx)
}
