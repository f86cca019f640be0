//! Attributes that count.
ghost use Rattle.std.specs.Prelude.{◌≡◌, ◌≤◌};
ghost use Rattle.pliron_dialect.specs.Counts.{counted_by};
ghost use Rattle.pliron_dialect_mlir.specs.Heads.{attribute_at as attribute_in, width_at as width_in, flags_at as flags_in};

use crate::data::is_width;
use pliron_bits::Flags;
use pliron_core::{AttrObj, Attrs};

// What the attribute counts.
pub(crate) fn attribute_count(attr: &AttrObj) -> u128
    ensures { result ≡ counted_by attr.now }
{
    match attr {
        AttrObj::Int(number) => { if *number < 0 { 0 } else { *number as u128 } }
        AttrObj::Text(_) => 0,
    }
}

// What the attribute at this index counts, 0 where there is none.
pub(crate) fn attribute_at(attrs: &Attrs, i: usize) -> u128
    ensures { result ≡ attribute_in attrs.now i }
{
    if i < attrs.len() {
        attribute_count(attrs.get(i))
    } else {
        0
    }
}

// The width that the attribute at this index says, 0 where it is none.
pub(crate) fn width_at(attrs: &Attrs, i: usize) -> u32
    ensures same { result ≡ width_in attrs.now i }
    ensures small { result ≤ 65 }
{
    let width = attribute_at(attrs, i);
    if width <= 65 && is_width(width as u32) {
        width as u32
    } else {
        0
    }
}

// The flags that the attribute at this index says.
pub(crate) fn flags_at(attrs: &Attrs, i: usize) -> Flags
    ensures { result ≡ flags_in attrs.now i }
{
    Flags::from_number(attribute_at(attrs, i))
}
