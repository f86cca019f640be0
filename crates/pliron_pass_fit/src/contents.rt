//! The operations of a root, by their places in pre-order.
ghost use Rattle.std.specs.Prelude.{◌≡◌, ◌↔◌, ◌≢◌, IfOk, IsOkUnless, IsTrue};
ghost use Rattle.pliron_core.specs.Tree.{IsLive, IsBlock, IsDefined, IsInside, HoldsBlock};
ghost use Rattle.pliron_core.specs.Changes.{IsDefinedInside};
ghost use Rattle.pliron_core.specs.Walks.{preorder};

use indexmap::IndexSet;
use pliron_core::{BasicBlock, Context, Def, Operation, Ptr, Value};
use pliron_laws::OptError;
use pliron_laws::edges::region_of;
use std::alloc::Global;

// The root and all that is inside it, in pre-order.
pub(crate) fn contents_of(
    alloc: Global,
    root: Ptr<Operation>,
    ctx: &Context,
) -> Result<IndexSet<Ptr<Operation>>, OptError>
    requires { IsLive ctx.now.tree root }
    ensures keys { IfOk result (λ s. s.keys ≡ preorder ctx.now.tree root) }
    ensures memory { IsOkUnless result OptError.Memory }
{
    ctx.well_formed();
    let mut contents = IndexSet::new(alloc);
    let mut at = Some(root);
    while let Some(op) = at {
        contents.insert(op)?;
        at = op.next_in_preorder(root, ctx);
    }
    Ok(contents)
}

// Whether the operation is inside the root.
pub(crate) fn is_inside(
    root: Ptr<Operation>,
    contents: &IndexSet<Ptr<Operation>>,
    op: Ptr<Operation>,
    ctx: &Context,
) -> bool
    requires { contents.now.keys ≡ preorder ctx.now.tree root }
    ensures { IsTrue result ↔ IsInside ctx.now.tree root op }
{
    ctx.well_formed();
    op != root && contents.contains(&op)
}

// Whether the root or an operation inside it holds the block.
fn holds_block(
    contents: &IndexSet<Ptr<Operation>>,
    root: Ptr<Operation>,
    block: Ptr<BasicBlock>,
    ctx: &Context,
) -> bool
    requires contents { contents.now.keys ≡ preorder ctx.now.tree root }
    requires block { IsBlock ctx.now.tree block }
    ensures { IsTrue result ↔ HoldsBlock ctx.now.tree root block }
{
    ctx.well_formed();
    contents.contains(&region_of(ctx, block).get_parent_op(ctx))
}

// Whether the value is defined inside the root.
pub(crate) fn is_defined_inside(
    root: Ptr<Operation>,
    contents: &IndexSet<Ptr<Operation>>,
    value: Value,
    ctx: &Context,
) -> bool
    requires contents { contents.now.keys ≡ preorder ctx.now.tree root }
    requires value { IsDefined ctx.now.tree value }
    ensures { IsTrue result ↔ IsDefinedInside ctx.now.tree root value }
{
    match value.def(ctx) {
        Def::Result(op, _) => is_inside(root, contents, op, ctx),
        Def::Argument(block, _) => holds_block(contents, root, block, ctx),
    }
}
