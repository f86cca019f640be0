//! What can be read of a value.
ghost use Rattle.std.specs.Prelude.{◌≡◌, slice_get, Some, IsTrue, ◌↔◌};
ghost use Rattle.pliron_core.specs.Tree.{IsDefined, definition_of};
ghost use Rattle.pliron_core.specs.Reads.{IsDefinitionLive};

use super::{Context, Def};
use crate::inline_list::InlineList;
use crate::keys::Value;

// Whether what is written as its definition lists the value at this index.
fn is_value_at(values: &InlineList<Value>, i: usize, value: Value) -> bool
    ensures { IsTrue result ↔ (slice_get values.now i ≡ Some value) }
{
    if i < values.len() {
        values.get(i) == value
    } else {
        false
    }
}

impl Value {
    /// Whether the value is live: what defined it in this context still lists it. Cost: constant, and a logarithm
    /// for an argument of a block with an index (`index_arguments`).
    #[inline(always)]
    pub fn is_live(self, ctx: &Context) -> bool
        ensures { IsTrue result ↔ IsDefined ctx.now.tree self }
    {
        match &ctx.arguments.definition(self) {
            Some(Def::Result(op, i)) => match ctx.operations.get(op.index() as usize) {
                Some(entry) => is_value_at(&entry.results, *i, self),
                None => false,
            },
            Some(Def::Argument(block, i)) => ctx.arguments.is_at(*block, *i, self),
            None => false,
        }
    }

    /// What defines the value. Asks that the value is live (`is_live` tests it). Cost: constant, and a logarithm
    /// for an argument of a block with an index (`index_arguments`).
    pub fn def(self, ctx: &Context) -> Def
        requires { IsDefined ctx.now.tree self }
        ensures definition { definition_of ctx.now.tree self ≡ Some result }
        ensures liveness { IsDefinitionLive ctx.now.tree result }
    {
        ctx.well_formed();
        match ctx.arguments.definition(self) {
            Some(definition) => definition,
            None => unreachable!(),
        }
    }
}
