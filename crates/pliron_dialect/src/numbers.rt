//! Attributes as numbers, and numbers that are known.
ghost use Rattle.std.specs.Prelude.{◌≡◌, IfOk, map, is_some};
ghost use Rattle.pliron_laws.specs.Datum.{datum_of};
ghost use Rattle.pliron_dialect.specs.Counts.{counted_by};
ghost use Rattle.pliron_dialect.specs.Roles.{number_of, known_as, known_number_at, all_known};

use pliron_core::AttrObj;
use std::alloc::{AllocFailed, Global};

/// The attribute's datum as a number. Cost: constant.
pub fn as_number(attr: &AttrObj) -> i128
    ensures { result ≡ number_of (datum_of attr.now) }
{
    match attr {
        AttrObj::Int(number) => *number,
        AttrObj::Text(_) => 0,
    }
}

/// The number of what is known of an operand. Cost: constant.
#[inline(always)]
pub fn number_known(known: &Option<AttrObj>) -> Option<i128>
    ensures { result ≡ known_as known.now }
{
    match known {
        Some(attr) => Some(as_number(attr)),
        None => None,
    }
}

/// The number that is known of the operand at this index. Cost: constant.
pub fn known_number(operand_attrs: &[Option<AttrObj>], i: usize) -> Option<i128>
    ensures { result ≡ known_number_at operand_attrs.now i }
{
    if i >= operand_attrs.len() {
        return None;
    }
    number_known(&operand_attrs[i])
}

/// What is known of the numbers of the operands. Errors: allocation failure. Cost: the number of operands.
pub fn known_numbers(
    alloc: Global,
    operand_attrs: &[Option<AttrObj>],
) -> Result<Vec<Option<i128>>, AllocFailed<Option<i128>>>
    ensures { IfOk result (λ numbers. numbers.items ≡ map known_as operand_attrs.now) }
{
    let mut numbers = Vec::new(alloc);
    for i in 0..operand_attrs.len() {
        numbers.push(known_number(operand_attrs, i))?;
    }
    Ok(numbers)
}

/// Whether all operands are known. Cost: the number of operands.
pub fn are_all_known(operand_attrs: &[Option<AttrObj>]) -> bool
    ensures { result ≡ is_some (all_known operand_attrs.now) }
{
    for i in 0..operand_attrs.len() {
        match known_number(operand_attrs, i) {
            Some(_) => {}
            None => return false,
        }
    }
    true
}
