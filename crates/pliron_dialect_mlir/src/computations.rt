//! What heads of operations on integers say, and the heads of those that passes make, which have no form.
ghost use Rattle.std.specs.Prelude.{◌≡◌, ◌≤◌, IfOk, IfSome};
ghost use Rattle.pliron_dialect_mlir.specs.Computations.{is_of_class as is_of_class_by, comparison_of as comparison_in, conversion_of as conversion_in, arithmetic_of as arithmetic_in, head_of_comparison, head_of_conversion, head_of_arithmetic};

use crate::attributes::{attribute_at, flags_at, width_at};
use crate::data::is_width;
use crate::heads::head_with;
use crate::kind::{Class, class_number};
use crate::tables::numbered_predicate;
use pliron_bits::{BinaryOperator, Cast, Flags, Predicate};
use pliron_core::{AttrObj, Head};
use std::alloc::{AllocFailed, Global};

/// A comparison of integers of this width.
#[derive(Clone, Copy, Debug, PartialEq, Eq)]
pub struct Comparison {
    pub width: u32,
    pub predicate: Predicate,
}

/// A cast of integers of this width to another.
#[derive(Clone, Copy, Debug, PartialEq, Eq)]
pub struct Conversion {
    pub width: u32,
    pub to: u32,
    pub flags: Flags,
}

/// An operation that computes an integer of this width of two.
#[derive(Clone, Copy, Debug, PartialEq, Eq)]
pub struct Arithmetic {
    pub width: u32,
    pub flags: Flags,
}

// Whether an operation with this head is of the class.
fn is_of_class(class: Class, head: &Head) -> bool
    ensures { result ≡ is_of_class_by class head.now }
{
    head.kind == class_number(class)
}

impl Comparison {
    /// What an operation with this head compares, and how, if it is a comparison of integers. Cost: constant.
    pub fn of_head(head: &Head) -> Option<Comparison>
        ensures { result ≡ comparison_in head.now }
    {
        if !is_of_class(Class::Compare, head) {
            return None;
        }
        let width = width_at(&head.attrs, 0);
        match numbered_predicate(attribute_at(&head.attrs, 1)) {
            Some(predicate) if is_width(width) => Some(Comparison { width, predicate }),
            _ => None,
        }
    }

    /// The head of the comparison, without a form. Errors: allocation failure. Cost: constant.
    pub fn head(self, alloc: Global) -> Result<Head, AllocFailed<AttrObj>>
        ensures { IfOk result (λ head. head ≡ head_of_comparison self) }
    {
        let numbers = [self.width as i128, self.predicate.number() as i128];
        head_with(alloc, Class::Compare, &numbers)
    }
}

impl Conversion {
    /// From which width to which an operation with this head casts, if it is this cast. Cost: constant.
    pub fn of_head(cast: Cast, head: &Head) -> Option<Conversion>
        ensures same { result ≡ conversion_in cast head.now }
        ensures widths { IfSome result (λ c. (c.width ≤ 65) × (c.to ≤ 65)) }
    {
        let width = width_at(&head.attrs, 0);
        let to = width_at(&head.attrs, 1);
        if is_of_class(Class::Cast(cast), head) && is_width(width) && is_width(to) {
            Some(Conversion {
                width,
                to,
                flags: flags_at(&head.attrs, 2),
            })
        } else {
            None
        }
    }

    /// The head of this cast, without a form. Errors: allocation failure. Cost: constant.
    pub fn head(self, cast: Cast, alloc: Global) -> Result<Head, AllocFailed<AttrObj>>
        ensures { IfOk result (λ head. head ≡ head_of_conversion cast self) }
    {
        let numbers = [
            self.width as i128,
            self.to as i128,
            self.flags.number() as i128,
        ];
        head_with(alloc, Class::Cast(cast), &numbers)
    }
}

impl Arithmetic {
    /// Of which width an operation with this head computes, and what it promises, if it has this operator. Cost:
    /// constant.
    pub fn of_head(operator: BinaryOperator, head: &Head) -> Option<Arithmetic>
        ensures { result ≡ arithmetic_in operator head.now }
    {
        let width = width_at(&head.attrs, 0);
        if is_of_class(Class::Binary(operator), head) && is_width(width) {
            Some(Arithmetic {
                width,
                flags: flags_at(&head.attrs, 1),
            })
        } else {
            None
        }
    }

    /// The head of an operation with this operator, without a form. Errors: allocation failure. Cost: constant.
    pub fn head(self, operator: BinaryOperator, alloc: Global) -> Result<Head, AllocFailed<AttrObj>>
        ensures { IfOk result (λ head. head ≡ head_of_arithmetic operator self) }
    {
        let numbers = [self.width as i128, self.flags.number() as i128];
        head_with(alloc, Class::Binary(operator), &numbers)
    }
}
