//! Names of functions, as tables have them.
ghost use Rattle.std.specs.Prelude.{◌≡◌, IfOk};
ghost use Rattle.pliron_laws.specs.Datum.{datum_of};
ghost use Rattle.pliron_graph_calls.specs.Names.{datum_of_name};

use pliron_core::AttrObj;
use std::alloc::{AllocError, Global};

/// A name, as the table has it.
#[derive(Debug, PartialEq, Eq, Hash, Drop)]
pub(crate) enum FunctionName {
    Number(i128),
    Letters(Vec<u8>),
}

// The attribute as a name. Errors: allocation failure. Cost: the length of a text.
pub(crate) fn name_of_attribute(alloc: Global, attr: &AttrObj) -> Result<FunctionName, AllocError>
    ensures { IfOk result (λ name. datum_of_name name ≡ datum_of attr.now) }
{
    match attr {
        AttrObj::Int(number) => Ok(FunctionName::Number(*number)),
        AttrObj::Text(text) => {
            let letters = Vec::from_slice(alloc, text.as_str().as_bytes())?;
            Ok(FunctionName::Letters(letters))
        }
    }
}
