//! The heads of new operations.
ghost use Rattle.std.specs.Prelude.{◌≡◌, IfOk};
ghost use Rattle.pliron_dialect.specs.Roles.{head_of_kind as head_without, constant_head_of as head_with_attribute};

use pliron_core::{AttrObj, Attrs, Head};
use std::alloc::{AllocFailed, Global};

/// The head of an operation of the kind with this number, without attributes. Takes no memory. Cost:
/// constant.
#[inline(always)]
pub fn plain_head(alloc: Global, number: u32, ssa: bool) -> Head
    ensures { result ≡ head_without number ssa }
{
    Head {
        kind: number,
        ssa,
        attrs: Attrs::new(Vec::new(alloc)),
    }
}

/// The head of an operation of the kind with this number, with one attribute. Errors: allocation failure. Cost:
/// constant.
#[inline(always)]
pub fn attribute_head(
    alloc: Global,
    number: u32,
    ssa: bool,
    attr: AttrObj,
) -> Result<Head, AllocFailed<AttrObj>>
    ensures { IfOk result (λ head. head ≡ head_with_attribute number ssa attr) }
{
    Ok(Head {
        kind: number,
        ssa,
        attrs: Attrs::one(alloc, attr)?,
    })
}
