//! How large functions are, and whether they may be copied.
ghost use Rattle.std.specs.Prelude.{◌≡◌, ◌↔◌, ℕ, IsTrue};
ghost use Rattle.pliron_core.specs.Tree.{In, IsLive};
ghost use Rattle.pliron_core.specs.Walks.{children};
ghost use Rattle.pliron_laws.specs.Answers.{HeadPasses};
ghost use Rattle.pliron_opt_inline.specs.Sizes.{size_inside};

use crate::policy::InliningPolicy;
use pliron_core::{Context, Operation, Ptr};
use pliron_dialect_calls::InliningDialect;

/// The size of a function: the sum of the sizes of the operations directly inside it, or the greatest number of 64 bits if
/// that is less.
///
/// Asks that the operation is live (`is_live` tests it). Cost: linear in the operations directly inside. Takes no memory.
pub fn size_of<D: InliningDialect, P: InliningPolicy<D>>(
    policy: &P,
    function: Ptr<Operation>,
    ctx: &Context,
) -> u64
    requires { IsLive ctx.now.tree function }
    ensures { result ≡ size_inside (P.size policy.now) ctx.now.tree function }
{
    ctx.well_formed();
    let mut total: u64 = 0;
    let mut at = function.first_inside(ctx);
    while let Some(op) = at {
        total = total.saturating_add(u64::from(policy.size(op, ctx)));
        at = op.next_beside(ctx);
    }
    total
}

/// Whether all operations directly inside a function may be copied, as the policy says.
///
/// Asks that the operation is live (`is_live` tests it). Cost: linear in the operations directly inside. Takes no memory.
pub fn may_be_copied<D: InliningDialect, P: InliningPolicy<D>>(
    policy: &P,
    function: Ptr<Operation>,
    ctx: &Context,
) -> bool
    requires { IsLive ctx.now.tree function }
    ensures { IsTrue result ↔ ((k : ℕ) → In k (children ctx.now.tree function) →
        HeadPasses (P.allows_copy policy.now) ctx.now.tree k) }
{
    ctx.well_formed();
    let mut at = function.first_inside(ctx);
    while let Some(op) = at {
        if !policy.allows_copy(op, ctx) {
            return false;
        }
        at = op.next_beside(ctx);
    }
    true
}
