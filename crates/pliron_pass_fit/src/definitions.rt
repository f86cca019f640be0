//! Where definitions are.
ghost use Rattle.std.specs.Prelude.{◌≡◌, ◌↔◌, ℕ, Some, IfSome, IsTrue};
ghost use Rattle.pliron_core.specs.Tree.{IsBlock, IsDefined, IsInside, definition_of, parent_of};
ghost use Rattle.pliron_core.specs.Walks.{preorder};
ghost use Rattle.pliron_laws.specs.Root.{defining_block};
ghost use Rattle.pliron_pass_fit.specs.Definitions.{IsDefinedBefore};

use indexmap::IndexSet;
use pliron_core::{BasicBlock, Context, Def, Operation, Ptr, Value};
use pliron_graph_traversal::ListedSet;

// The block that the definition of the value is in.
pub(crate) fn block_of_definition(value: Value, ctx: &Context) -> Option<Ptr<BasicBlock>>
    requires { IsDefined ctx.now.tree value }
    ensures block { result ≡ defining_block ctx.now.tree (definition_of ctx.now.tree value) }
    ensures liveness { IfSome result (λ b. IsBlock ctx.now.tree b) }
{
    match value.def(ctx) {
        Def::Result(op, _) => op.get_parent_block(ctx),
        Def::Argument(block, _) => Some(block),
    }
}

// Whether the value, which is defined in the block of this operation, is defined before it.
pub(crate) fn is_defined_before(
    contents: &IndexSet<Ptr<Operation>>,
    value: Value,
    around: Ptr<Operation>,
    ctx: &Context,
) -> bool
    requires value { IsDefined ctx.now.tree value }
    requires inside { (root : ℕ) × (contents.now.keys ≡ preorder ctx.now.tree root)
        × IsInside ctx.now.tree root around }
    ensures { (block : ℕ) → parent_of ctx.now.tree around ≡ Some block →
        defining_block ctx.now.tree (definition_of ctx.now.tree value) ≡ Some block →
        (IsTrue result ↔ IsDefinedBefore ctx.now.tree (definition_of ctx.now.tree value) block around) }
{
    ctx.well_formed();
    match value.def(ctx) {
        Def::Result(op, _) => {
            let maker = contents.place_of(&op);
            let user = contents.place_of(&around);
            maker < user
        }
        Def::Argument(_, _) => true,
    }
}
