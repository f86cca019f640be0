//! Calls of a module that are inlined.
ghost use Rattle.std.specs.Prelude.{◌≡◌, ℕ, List, OnOk};
ghost use Rattle.pliron_core.specs.Tree.{IsLive};
ghost use Rattle.pliron_laws.specs.Linked.{IsWellLinked};
ghost use Rattle.pliron_opt_inline.specs.Module.{AreInlined};

use crate::types::set_types;
use pliron_core::{Context, IRRewriter};
use pliron_dialect_calls::InliningDialect;
use pliron_driver_mlir::ModuleDocument;
use pliron_laws::{Dialect, OptError, is_well_linked};
use pliron_mlir_inlining::ModulePolicy;
use pliron_opt_inline::{InliningOptions, inline_calls};
use std::alloc::Global;

/// How far inlining goes: functions of at most 80 operations are copied to where they are called, private ones of at most 100
/// where they are called once, and none grows by copies beyond 30,000. Larger ones gain little, and what is copied to its only
/// call can make a loop slower, since it leaves fewer registers.
pub const INLINING: InliningOptions = InliningOptions {
    threshold: 80,
    only_call: 100,
    limit: 30_000,
};

/// Inlines calls in the module of the document, as far as its texts allow it. The sheet gets the types of what was made, and
/// counts the calls.
///
/// Asks that the module is live (`is_live` tests it). Errors: allocation failure; `VerifyAfter` where the module isn't well
/// linked afterwards. Cost: that of `inline_calls`, and linear in the sheet's
/// texts.
pub fn inline_document<D: Dialect + InliningDialect>(
    alloc: Global,
    document: &mut ModuleDocument,
    ctx: &mut Context,
) -> Result<(), OptError>
    requires { IsLive ctx.old.tree document.old.root }
    ensures root { document.new.root ≡ document.old.root }
    ensures inlined { OnOk result ((callees : List ℕ) × AreInlined D.meaning D.convention ctx.old.tree ctx.new.tree
        callees) }
    ensures liveness { OnOk result (IsLive ctx.new.tree document.new.root) }
    ensures links { OnOk result (IsWellLinked D.meaning ctx.new.tree document.new.root) }
{
    let policy = ModulePolicy::of(alloc, &document.sheet)?;
    let mut rewriter = IRRewriter::new();
    let made = inline_calls::<D, ModulePolicy, IRRewriter>(
        alloc,
        document.root,
        &INLINING,
        &policy,
        ctx,
        &mut rewriter,
    )?;
    set_types(&mut document.sheet, &made.values)?;
    document.sheet.inlined = document.sheet.inlined.saturating_add(made.calls.len());
    if document.root.is_live(ctx) && is_well_linked::<D>(document.root, ctx) {
        Ok(())
    } else {
        Err(OptError::VerifyAfter)
    }
}
