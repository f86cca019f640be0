//! The heads of new operations.
ghost use Rattle.std.specs.Prelude.{◌≡◌, IfOk};
ghost use Rattle.pliron_dialect_bench.specs.Bench.{attribute_head as head_with_attribute, plain_head as head_without};

use crate::kind::BenchKind;
use pliron_core::{AttrObj, Attrs, Head};
use std::alloc::{AllocFailed, Global};

/// The head of an operation without attributes. Takes no memory. Cost: constant.
#[inline(always)]
pub fn plain_head(alloc: Global, kind: BenchKind) -> Head
    ensures { result ≡ head_without kind }
{
    Head {
        kind: kind.number(),
        ssa: kind.is_ssa(),
        attrs: Attrs::new(Vec::new(alloc)),
    }
}

/// The head of an operation with one attribute. Errors: allocation failure. Cost: constant.
#[inline(always)]
pub fn attribute_head(
    alloc: Global,
    kind: BenchKind,
    attr: AttrObj,
) -> Result<Head, AllocFailed<AttrObj>>
    ensures { IfOk result (λ head. head ≡ head_with_attribute kind attr) }
{
    Ok(Head {
        kind: kind.number(),
        ssa: kind.is_ssa(),
        attrs: Attrs::one(alloc, attr)?,
    })
}
