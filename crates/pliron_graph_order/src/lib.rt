//! The operations inside an operation in dominance order: each comes before those that it dominates, which come
//! directly behind it.
//!
//! It knows regions as graphs and their dominator trees. It knows nothing of rewrites, passes or dialects.
#![tactic(auto)]

ghost use Rattle.std.specs.Prelude.{IfOk, IsOkUnless};
ghost use Rattle.pliron_core.specs.Tree.{IsLive};
ghost use Rattle.pliron_laws.specs.Linked.{EdgesLast};
ghost use Rattle.pliron_graph_order.specs.Behind.{BehindLaws};
ghost use Rattle.pliron_graph_order.specs.Order.{IsOrder};

mod numbering;
mod preorder;
mod walk;

use crate::preorder::in_preorder;
use crate::walk::number_all;
use pliron_core::{Context, Operation, Ptr};
use pliron_laws::OptError;
pub use preorder::DominanceOrder;
use std::alloc::Global;

/// What dominates an operation is found from what dominates the place in front of it.
pub fn dominance_goes_by_steps()
    ensures { BehindLaws }
{}

/// The operations inside the root that the entries of their regions reach, in dominance order.
///
/// Regions without SSA dominance have no order: in them the head block alone is visited, for the regions inside it.
///
/// Asks that the root is live and that edges are last in it. Errors: allocation failure. Cost: linear in the
/// operations inside, and that of a dominator tree for each region.
pub fn dominance_order(
    alloc: Global,
    root: Ptr<Operation>,
    ctx: &Context,
) -> Result<DominanceOrder, OptError>
    requires live { IsLive ctx.now.tree root }
    requires edges { EdgesLast ctx.now.tree root }
    ensures order { IfOk result (λ o. IsOrder ctx.now.tree root o.operations.items o.ends.items) }
    ensures memory { IsOkUnless result OptError.Memory }
{
    let numbering = number_all(alloc, root, ctx)?;
    in_preorder(alloc, &numbering, ctx)
}
