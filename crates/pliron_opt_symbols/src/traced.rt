//! Whether functions can call nothing but callees.
ghost use Rattle.std.specs.Prelude.{◌↔◌, ℕ, All, IfOk, IsOkUnless, IsTrue};
ghost use Rattle.pliron_core.specs.Tree.{In, IsLive, IsWithin};
ghost use Rattle.pliron_laws.specs.Answers.{HeadPasses};

use crate::policy::SymbolPolicy;
use crate::within::all_within;
use pliron_core::{Context, Operation, Ptr};
use pliron_dialect_calls::InliningDialect;
use pliron_laws::OptError;
use std::alloc::Global;

// Whether all within the operation can call nothing but their callees.
fn is_traced_within<D: InliningDialect, P: SymbolPolicy<D>>(
    alloc: Global,
    op: Ptr<Operation>,
    policy: &P,
    ctx: &Context,
) -> Result<bool, OptError>
    requires { IsLive ctx.now.tree op }
    ensures traced { IfOk result (λ traced. IsTrue traced ↔ ((k : ℕ) → IsWithin ctx.now.tree op k → HeadPasses
        (P.is_traced policy.now) ctx.now.tree k)) }
    ensures memory { IsOkUnless result OptError.Memory }
{
    let ops = all_within(alloc, op, ctx)?;
    for inner in &ops {
        if !policy.is_traced(*inner, ctx) {
            return Ok(false);
        }
    }
    Ok(true)
}

// The same of all within these.
pub(crate) fn are_traced<D: InliningDialect, P: SymbolPolicy<D>>(
    alloc: Global,
    functions: &[Ptr<Operation>],
    policy: &P,
    ctx: &Context,
) -> Result<bool, OptError>
    requires { All (λ f. IsLive ctx.now.tree f) functions.now }
    ensures traced { IfOk result (λ traced. IsTrue traced ↔ ((f k : ℕ) → In f functions.now → IsWithin
        ctx.now.tree f k → HeadPasses (P.is_traced policy.now) ctx.now.tree k)) }
    ensures memory { IsOkUnless result OptError.Memory }
{
    for function in functions {
        if !is_traced_within::<D, P>(alloc, *function, policy, ctx)? {
            return Ok(false);
        }
    }
    Ok(true)
}
