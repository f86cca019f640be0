//! Counts of operands in attributes.
ghost use Rattle.std.specs.Prelude.{pos, ◌≡◌, ◌-◌, min};
ghost use Rattle.pliron_core.specs.declared.attrs.AttrObj.TheVariants.{Int};
ghost use Rattle.pliron_dialect.specs.Counts.{counted_by};

use pliron_core::AttrObj;

/// How many operands the attribute counts, at most so many. Cost: constant.
pub fn count_up_to(attr: &AttrObj, most: usize) -> usize
    ensures { result ≡ min (counted_by attr.now) most }
{
    match attr {
        AttrObj::Int(number) => {
            if *number < 0 {
                0
            } else if *number < most as i128 {
                *number as usize
            } else {
                most
            }
        }
        AttrObj::Text(_) => 0,
    }
}

/// The count of an attribute, less one, at least 0. Cost: constant.
pub fn one_fewer(attr: &AttrObj) -> AttrObj
    ensures { result ≡ Int (pos (counted_by attr.now - 1)) }
{
    match attr {
        AttrObj::Int(number) => {
            if *number > 0 {
                AttrObj::Int(*number - 1)
            } else {
                AttrObj::Int(0)
            }
        }
        AttrObj::Text(_) => AttrObj::Int(0),
    }
}
