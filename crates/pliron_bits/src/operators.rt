//! The operations by name.
ghost use Rattle.std.specs.Prelude.{◌≡◌, ◌≤◌, ◌<◌, ◌^◌, Some, IfSome};
ghost use Rattle.pliron_bits.specs.Operators.{binary, comparison, cast_to, number_of_operator, operator_of_number, number_of_predicate, predicate_of_number};

use crate::casts::{sign_extend, truncate, zero_extend};
use crate::division::{
    signed_quotient, signed_quotient_down, signed_quotient_up, signed_remainder, unsigned_quotient,
    unsigned_quotient_up, unsigned_remainder,
};
use crate::flags::Flags;
use crate::logic::{and, or, xor};
use crate::order::{
    signed_less, signed_maximum, signed_minimum, unsigned_maximum, unsigned_minimum,
};
use crate::shifts::{arithmetic_shift_right, logical_shift_right, shift_left};
use crate::wrapping::{difference, product, sum};

/// An operation on two numbers of a width, whose result is one of that width.
#[derive(Clone, Copy, Debug, PartialEq, Eq)]
pub enum BinaryOperator {
    Add,
    Subtract,
    Multiply,
    UnsignedDivide,
    SignedDivide,
    UnsignedRemainder,
    SignedRemainder,
    ShiftLeft,
    LogicalShiftRight,
    ArithmeticShiftRight,
    And,
    Or,
    Xor,
    UnsignedMinimum,
    SignedMinimum,
    UnsignedMaximum,
    SignedMaximum,
    UnsignedDivideUp,
    SignedDivideUp,
    SignedDivideDown,
}

/// A comparison of two numbers of a width.
#[derive(Clone, Copy, Debug, PartialEq, Eq)]
pub enum Predicate {
    Equal,
    NotEqual,
    SignedLess,
    SignedLessEqual,
    SignedGreater,
    SignedGreaterEqual,
    UnsignedLess,
    UnsignedLessEqual,
    UnsignedGreater,
    UnsignedGreaterEqual,
}

/// What takes a number to another width.
#[derive(Clone, Copy, Debug, PartialEq, Eq)]
pub enum Cast {
    ZeroExtend,
    SignExtend,
    Truncate,
}

impl BinaryOperator {
    /// The number of the operation, from 0 on. Cost: constant.
    pub fn number(self) -> u32
        ensures { result ≡ number_of_operator self }
    {
        match self {
            BinaryOperator::Add => 0,
            BinaryOperator::Subtract => 1,
            BinaryOperator::Multiply => 2,
            BinaryOperator::UnsignedDivide => 3,
            BinaryOperator::SignedDivide => 4,
            BinaryOperator::UnsignedRemainder => 5,
            BinaryOperator::SignedRemainder => 6,
            BinaryOperator::ShiftLeft => 7,
            BinaryOperator::LogicalShiftRight => 8,
            BinaryOperator::ArithmeticShiftRight => 9,
            BinaryOperator::And => 10,
            BinaryOperator::Or => 11,
            BinaryOperator::Xor => 12,
            BinaryOperator::UnsignedMinimum => 13,
            BinaryOperator::SignedMinimum => 14,
            BinaryOperator::UnsignedMaximum => 15,
            BinaryOperator::SignedMaximum => 16,
            BinaryOperator::UnsignedDivideUp => 17,
            BinaryOperator::SignedDivideUp => 18,
            BinaryOperator::SignedDivideDown => 19,
        }
    }

    /// The operation with this number, if there is one. Cost: constant.
    pub fn from_number(number: u32) -> Option<BinaryOperator>
        ensures { result ≡ operator_of_number number }
    {
        match number {
            0 => Some(BinaryOperator::Add),
            1 => Some(BinaryOperator::Subtract),
            2 => Some(BinaryOperator::Multiply),
            3 => Some(BinaryOperator::UnsignedDivide),
            4 => Some(BinaryOperator::SignedDivide),
            5 => Some(BinaryOperator::UnsignedRemainder),
            6 => Some(BinaryOperator::SignedRemainder),
            7 => Some(BinaryOperator::ShiftLeft),
            8 => Some(BinaryOperator::LogicalShiftRight),
            9 => Some(BinaryOperator::ArithmeticShiftRight),
            10 => Some(BinaryOperator::And),
            11 => Some(BinaryOperator::Or),
            12 => Some(BinaryOperator::Xor),
            13 => Some(BinaryOperator::UnsignedMinimum),
            14 => Some(BinaryOperator::SignedMinimum),
            15 => Some(BinaryOperator::UnsignedMaximum),
            16 => Some(BinaryOperator::SignedMaximum),
            17 => Some(BinaryOperator::UnsignedDivideUp),
            18 => Some(BinaryOperator::SignedDivideUp),
            19 => Some(BinaryOperator::SignedDivideDown),
            _ => None,
        }
    }
}

impl Predicate {
    /// The number of the predicate, from 0 on, as MLIR counts them. Cost: constant.
    pub fn number(self) -> u32
        ensures { result ≡ number_of_predicate self }
    {
        match self {
            Predicate::Equal => 0,
            Predicate::NotEqual => 1,
            Predicate::SignedLess => 2,
            Predicate::SignedLessEqual => 3,
            Predicate::SignedGreater => 4,
            Predicate::SignedGreaterEqual => 5,
            Predicate::UnsignedLess => 6,
            Predicate::UnsignedLessEqual => 7,
            Predicate::UnsignedGreater => 8,
            Predicate::UnsignedGreaterEqual => 9,
        }
    }

    /// The predicate with this number, if there is one. Cost: constant.
    pub fn from_number(number: u32) -> Option<Predicate>
        ensures { result ≡ predicate_of_number number }
    {
        match number {
            0 => Some(Predicate::Equal),
            1 => Some(Predicate::NotEqual),
            2 => Some(Predicate::SignedLess),
            3 => Some(Predicate::SignedLessEqual),
            4 => Some(Predicate::SignedGreater),
            5 => Some(Predicate::SignedGreaterEqual),
            6 => Some(Predicate::UnsignedLess),
            7 => Some(Predicate::UnsignedLessEqual),
            8 => Some(Predicate::UnsignedGreater),
            9 => Some(Predicate::UnsignedGreaterEqual),
            _ => None,
        }
    }
}

/// What the operation computes of two numbers. None where that has no meaning. Asks for a width from 1 to 64, and
/// numbers of it. Cost: constant.
pub fn compute(operator: BinaryOperator, flags: Flags, width: u32, a: u64, b: u64) -> Option<u64>
    requires at_least { 1 ≤ width }
    requires at_most { width ≤ 64 }
    requires first { a < 2 ^ width }
    requires second { b < 2 ^ width }
    ensures { result ≡ binary operator flags width a b }
{
    match operator {
        BinaryOperator::Add => sum(flags, width, a, b),
        BinaryOperator::Subtract => difference(flags, width, a, b),
        BinaryOperator::Multiply => product(flags, width, a, b),
        BinaryOperator::UnsignedDivide => unsigned_quotient(flags, a, b),
        BinaryOperator::SignedDivide => signed_quotient(flags, width, a, b),
        BinaryOperator::UnsignedRemainder => unsigned_remainder(a, b),
        BinaryOperator::SignedRemainder => signed_remainder(width, a, b),
        BinaryOperator::ShiftLeft => shift_left(flags, width, a, b),
        BinaryOperator::LogicalShiftRight => logical_shift_right(flags, width, a, b),
        BinaryOperator::ArithmeticShiftRight => arithmetic_shift_right(flags, width, a, b),
        BinaryOperator::And => and(a, b),
        BinaryOperator::Or => or(flags, a, b),
        BinaryOperator::Xor => xor(a, b),
        BinaryOperator::UnsignedMinimum => unsigned_minimum(a, b),
        BinaryOperator::SignedMinimum => signed_minimum(width, a, b),
        BinaryOperator::UnsignedMaximum => unsigned_maximum(a, b),
        BinaryOperator::SignedMaximum => signed_maximum(width, a, b),
        BinaryOperator::UnsignedDivideUp => unsigned_quotient_up(a, b),
        BinaryOperator::SignedDivideUp => signed_quotient_up(width, a, b),
        BinaryOperator::SignedDivideDown => signed_quotient_down(width, a, b),
    }
}

/// Whether the predicate holds of two numbers. Asks for a width from 1 to 64, and numbers of it. Cost: constant.
pub fn compare(predicate: Predicate, width: u32, a: u64, b: u64) -> bool
    requires at_least { 1 ≤ width }
    requires at_most { width ≤ 64 }
    requires first { a < 2 ^ width }
    requires second { b < 2 ^ width }
    ensures { result ≡ comparison predicate width a b }
{
    match predicate {
        Predicate::Equal => a == b,
        Predicate::NotEqual => a != b,
        Predicate::SignedLess => signed_less(width, a, b),
        Predicate::SignedLessEqual => !signed_less(width, b, a),
        Predicate::SignedGreater => signed_less(width, b, a),
        Predicate::SignedGreaterEqual => !signed_less(width, a, b),
        Predicate::UnsignedLess => a < b,
        Predicate::UnsignedLessEqual => a <= b,
        Predicate::UnsignedGreater => b < a,
        Predicate::UnsignedGreaterEqual => b <= a,
    }
}

/// The number at another width. None where that has no meaning, and where an extension would go to a narrower width
/// or a truncation to a wider one. Asks for widths from 1 to 64, and a number of the first one. Cost: constant.
pub fn convert(cast: Cast, flags: Flags, width: u32, to: u32, a: u64) -> Option<u64>
    requires at_least { 1 ≤ width }
    requires at_most { width ≤ 64 }
    requires target { 1 ≤ to }
    requires narrow { to ≤ 64 }
    requires number { a < 2 ^ width }
    ensures { result ≡ cast_to cast flags width to a }
{
    match cast {
        Cast::ZeroExtend => {
            if width <= to {
                zero_extend(flags, width, a)
            } else {
                None
            }
        }
        Cast::SignExtend => {
            if width <= to {
                sign_extend(width, to, a)
            } else {
                None
            }
        }
        Cast::Truncate => {
            if to <= width {
                truncate(flags, width, to, a)
            } else {
                None
            }
        }
    }
}
