//! Whether the edges of a branch fit their targets.
ghost use Rattle.std.specs.Prelude.{◌≡◌, ◌↔◌, ℕ, ◌<◌, Some, IsTrue, length, slice_get};
ghost use Rattle.pliron_core.specs.Tree.{IsLive, head_of, successors_of, arguments_of};
ghost use Rattle.pliron_laws.specs.Datum.{Head as HeadOf};
ghost use Rattle.pliron_dialect.specs.Roles.{role_at};
ghost use Rattle.pliron_dialect.specs.Outcomes.{places_of_edge, AllFit, EdgesFit};

use crate::edge_ranges::places_at;
use crate::roles::Roles;
use crate::tables::kind_at;
use pliron_core::{Context, Operation, Ptr};

// Whether the edge forwards as many values as its target has arguments.
fn edge_fits<K: Roles>(op: Ptr<Operation>, ctx: &Context, i: usize) -> bool
    requires live { IsLive ctx.now.tree op }
    requires edge { i < length (successors_of ctx.now.tree op) }
    ensures { (h : HeadOf) (b : ℕ) → head_of ctx.now.tree op ≡ Some h → slice_get (successors_of ctx.now.tree op) i
        ≡ Some b → IsTrue result ↔ (length (places_of_edge (role_at K.tables) ctx.now.tree op h i) ≡ length
        (arguments_of ctx.now.tree b)) }
{
    let target = op.get_successor(ctx, i);
    places_at::<K>(op, ctx, i).count == target.num_argument(ctx)
}

// Whether each edge fits.
fn all_edges_fit<K: Roles>(op: Ptr<Operation>, ctx: &Context) -> bool
    requires { IsLive ctx.now.tree op }
    ensures { IsTrue result ↔ AllFit (role_at K.tables) ctx.now.tree op }
{
    for i in 0..op.num_successor(ctx) {
        if !edge_fits::<K>(op, ctx, i) {
            return false;
        }
    }
    true
}

/// Whether the table asks nothing of the operation's edges, or each of them fits. Asks that the operation is live
/// (`is_live` tests it). Cost: the number of its successors.
pub fn edges_fit<K: Roles>(op: Ptr<Operation>, ctx: &Context) -> bool
    requires { IsLive ctx.now.tree op }
    ensures { IsTrue result ↔ EdgesFit K.tables ctx.now.tree op }
{
    match kind_at::<K>(op, ctx) {
        Some(kind) => {
            if kind.checks_edges() {
                all_edges_fit::<K>(op, ctx)
            } else {
                true
            }
        }
        None => true,
    }
}
