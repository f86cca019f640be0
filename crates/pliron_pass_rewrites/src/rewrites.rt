//! Rewrites inside an operation on which a pass runs.
ghost use Rattle.std.specs.Prelude.{◌≡◌, ◌↔◌, IfOk, IsTrue, OnErr, IsOkUnless};
ghost use Rattle.pliron_core.specs.declared.attrs.IRStatus.TheVariants.{Unchanged};
ghost use Rattle.pliron_core.specs.Tree.{IsDefined, IsInside, IsLive, definition_of};
ghost use Rattle.pliron_core.specs.Changes.{IsDefinedInside, IsSameTree};
ghost use Rattle.pliron_core.specs.Erased.{IsSelfContained};
ghost use Rattle.pliron_laws.specs.Linked.{IsWellLinked};
ghost use Rattle.pliron_laws.specs.Outcomes.{materialised_at};
ghost use Rattle.pliron_theory.specs.Change.{IsPassChange};
ghost use Rattle.pliron_theory.specs.Keeps.{KeepsRuns};
ghost use Rattle.pliron_theory.specs.Rewrites.{ErasesUnused, BecomesIfAccepted, IsConstant, IsPoint};
ghost use Rattle.pliron_pass_rewrites.specs.Definitions.{definition_point};

use pliron_core::{AttrObj, Context, Def, IRStatus, Operation, Ptr, Rewriter, Value};
use pliron_laws::{Dialect, OptError, Room};
use pliron_theory::rewrites::{
    erase_unused, replace_argument_by_constant, replace_result_by_constant,
};
use std::alloc::Global;

/// Erases an operation inside `holder` with its contents, where the dialect answers that it has no side effects.
///
/// Asks that it is inside `holder` (`is_inside` tests it), that no value or block of it is used outside it
/// (`is_self_contained`), and that `holder` is well linked.
/// Errors: allocation failure, which changes nothing. Cost: what is erased, with its operands and successors.
pub fn erase_unused_inside<D: Dialect, R: Rewriter + Room>(
    alloc: Global,
    holder: Ptr<Operation>,
    op: Ptr<Operation>,
    ctx: &mut Context,
    rewriter: &mut R,
) -> Result<IRStatus, OptError>
    requires linked { IsWellLinked D.meaning ctx.old.tree holder }
    requires inside { IsInside ctx.old.tree holder op }
    requires contained { IsSelfContained ctx.old.tree op }
    ensures change { IsPassChange D.meaning ctx.old.tree ctx.new.tree holder }
    ensures same { IfOk result (λ status. status ≡ Unchanged → ctx.new.tree ≡ ctx.old.tree) }
    ensures ok { IfOk result (λ status. ErasesUnused D.side_effects op ctx.old.tree ctx.new.tree status) }
    ensures refused { OnErr result (ctx.new ≡ ctx.old) }
    ensures memory { IsOkUnless result OptError.Memory }
    ensures point { R.point rewriter.new ≡ R.point rewriter.old }
{
    ctx.well_formed();
    let erased = erase_unused::<D, R>(alloc, op, ctx, rewriter);
    ctx.well_formed();
    erased
}

/// Whether the value is defined inside the operation. Asks that both are live (`is_live` tests it). Cost: the depth of
/// what defines it.
pub fn is_defined_inside(value: Value, holder: Ptr<Operation>, ctx: &Context) -> bool
    requires live { IsLive ctx.now.tree holder }
    requires defined { IsDefined ctx.now.tree value }
    ensures { IsTrue result ↔ IsDefinedInside ctx.now.tree holder value }
{
    match value.def(ctx) {
        Def::Result(op, _) => op.is_inside(holder, ctx),
        Def::Argument(block, _) => holder.holds_block(block, ctx),
    }
}

/// Puts a new operation that makes this constant where the value is defined, and gives it all uses of the value:
/// directly before the operation of a result, or first in the block of an argument. Answers `Unchanged` where
/// the dialect has no operation for the attribute. The rewriter inserts there from now on.
///
/// Asks that the value is live (`is_live` tests it) and defined inside `holder` (`is_defined_inside`), that `holder` is
/// well linked, and that every run of a root that is fit to run reads the value as this constant wherever it reads it.
/// Errors: allocation failure, which leaves the tree as it was but for erased handles. Cost: that of
/// `materialize`, and one step for each use of the value.
pub fn replace_by_constant_inside<D: Dialect, R: Rewriter + Room>(
    alloc: Global,
    holder: Ptr<Operation>,
    value: Value,
    attr: &AttrObj,
    ctx: &mut Context,
    rewriter: &mut R,
) -> Result<IRStatus, OptError>
    requires linked { IsWellLinked D.meaning ctx.old.tree holder }
    requires live { IsDefined ctx.old.tree value }
    requires inside { IsDefinedInside ctx.old.tree holder value }
    requires constant { IsConstant D.meaning ctx.old.tree value attr.now }
    ensures change { IsPassChange D.meaning ctx.old.tree ctx.new.tree holder }
    ensures same { IfOk result (λ status. status ≡ Unchanged → ctx.new.tree ≡ ctx.old.tree) }
    ensures ok { IfOk result (λ status. BecomesIfAccepted D.accepts attr.now (materialised_at ctx.old.tree
        (definition_point (definition_of ctx.old.tree value)) value (D.constant_head attr.now)) ctx.old.tree
        ctx.new.tree status) }
    ensures refused { OnErr result (IsSameTree ctx.old.tree ctx.new.tree) }
    ensures memory { IsOkUnless result OptError.Memory }
    ensures point { R.point rewriter.new ≡ definition_point (definition_of ctx.old.tree value) }
{
    ctx.well_formed();
    let replaced = replace_value::<D, R>(alloc, value, attr, ctx, rewriter);
    ctx.well_formed();
    replaced
}

// A constant for the attribute is put where the value is defined, and gets the uses of the value, where the dialect
// accepts the attribute.
fn replace_value<D: Dialect, R: Rewriter + Room>(
    alloc: Global,
    value: Value,
    attr: &AttrObj,
    ctx: &mut Context,
    rewriter: &mut R,
) -> Result<IRStatus, OptError>
    requires live { IsDefined ctx.old.tree value }
    requires point { IsPoint ctx.old.tree (definition_point (definition_of ctx.old.tree value)) }
    requires constant { IsConstant D.meaning ctx.old.tree value attr.now }
    ensures ok { IfOk result (λ status. BecomesIfAccepted D.accepts attr.now (materialised_at ctx.old.tree
        (definition_point (definition_of ctx.old.tree value)) value (D.constant_head attr.now)) ctx.old.tree
        ctx.new.tree status) }
    ensures refused { OnErr result (IsSameTree ctx.old.tree ctx.new.tree) }
    ensures memory { IsOkUnless result OptError.Memory }
    ensures runs { KeepsRuns D.meaning ctx.old.tree ctx.new.tree }
    ensures point { R.point rewriter.new ≡ definition_point (definition_of ctx.old.tree value) }
{
    match value.def(ctx) {
        Def::Result(op, index) => {
            replace_result_by_constant::<D, R>(alloc, op, index, attr, ctx, rewriter)
        }
        Def::Argument(block, index) => {
            replace_argument_by_constant::<D, R>(alloc, block, index, attr, ctx, rewriter)
        }
    }
}
