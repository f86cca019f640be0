//! Who uses what is defined in blocks that are to be erased.
ghost use Rattle.std.specs.Prelude.{◌≡◌, ◌⊎◌, ℕ, OnOk, IfErr, IsOkUnless};
ghost use Rattle.pliron_core.specs.Tree.{In, IsBlock, IsDefined};
ghost use Rattle.pliron_laws.specs.declared.fault.OptError.TheVariants.{LiveUse, Memory};
ghost use Rattle.pliron_opt_cfg.specs.Internal.OtherUses.{HaveNoOtherUse, HaveOtherUse};
ghost use Rattle.pliron_opt_cfg.specs.Internal.Contents.{IsUsedWithin, HasUseOutside};

use crate::removal::contents::{operations_in, push_inner_blocks, set_of, values_made};
use indexmap::IndexSet;
use pliron_core::{BasicBlock, Context, Operation, Ptr, Value};
use pliron_laws::OptError;
use std::alloc::Global;

// These operations alone use the value.
fn check_value(
    ctx: &Context,
    value: Value,
    inside: &IndexSet<Ptr<Operation>>,
) -> Result<(), OptError>
    requires { IsDefined ctx.now.tree value }
    ensures ok { OnOk result (IsUsedWithin ctx.now.tree inside.now.keys value) }
    ensures err { IfErr result (λ e. (e ≡ LiveUse) × HasUseOutside ctx.now.tree inside.now.keys value) }
{
    ctx.well_formed();
    for i in 0..value.num_use(ctx) {
        let (user, _) = value.get_use(ctx, i);
        if !inside.contains(&user) {
            return Err(OptError::LiveUse);
        }
    }
    Ok(())
}

// These operations alone use these values.
pub(crate) fn check_values(
    ctx: &Context,
    values: &[Value],
    inside: &IndexSet<Ptr<Operation>>,
) -> Result<(), OptError>
    requires { (v : ℕ) → In v values.now → IsDefined ctx.now.tree v }
    ensures ok { OnOk result ((v : ℕ) → In v values.now → IsUsedWithin ctx.now.tree inside.now.keys v) }
    ensures err { IfErr result (λ e. (e ≡ LiveUse) × ((v : ℕ) × In v values.now × HasUseOutside ctx.now.tree
        inside.now.keys v)) }
{
    for value in values {
        check_value(ctx, *value, inside)?;
    }
    Ok(())
}

// What is defined in the blocks is used in them alone. Linear in what is in the blocks and in the uses of what
// is defined there, with one table look-up for each use.
pub(crate) fn check_uses(
    alloc: Global,
    ctx: &Context,
    blocks: &[Ptr<BasicBlock>],
) -> Result<(), OptError>
    requires { (b : ℕ) → In b blocks.now → IsBlock ctx.now.tree b }
    ensures ok { OnOk result (HaveNoOtherUse ctx.now.tree blocks.now) }
    ensures err { IfErr result (λ e. (e ≡ Memory) ⊎ ((e ≡ LiveUse) × HaveOtherUse ctx.now.tree blocks.now)) }
{
    ctx.well_formed();
    let ops = operations_in(alloc, ctx, blocks)?;
    let mut all = Vec::new(alloc);
    all.extend_from_slice(blocks)?;
    push_inner_blocks(ctx, &ops, &mut all)?;
    let values = values_made(alloc, ctx, &ops, &all)?;
    let inside = set_of(alloc, &ops)?;
    check_values(ctx, &values, &inside)
}
