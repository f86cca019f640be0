//! Operations on integers that passes made.
use crate::names::write_number;
use pliron_bits::{BinaryOperator, Cast, Flags, Predicate};
use pliron_core::Head;
use pliron_dialect_mlir::{Arithmetic, Class, Comparison, Conversion, class_of_head};
use std::alloc::AllocError;

/// What an operation on integers is in LLVM's textual IR.
#[derive(Clone, Copy, Debug)]
pub struct IntegerText {
    opcode: &'static [u8],
    flags: Flags,
    /// The width of its operands.
    from: u32,
    /// The width to which a cast goes; none of what is no cast.
    to: Option<u32>,
}

// The opcode of the operator, if it has one.
fn binary_opcode(operator: BinaryOperator) -> Option<&'static [u8]> {
    match operator {
        BinaryOperator::Add => Some(b"add"),
        BinaryOperator::Subtract => Some(b"sub"),
        BinaryOperator::Multiply => Some(b"mul"),
        BinaryOperator::UnsignedDivide => Some(b"udiv"),
        BinaryOperator::SignedDivide => Some(b"sdiv"),
        BinaryOperator::UnsignedRemainder => Some(b"urem"),
        BinaryOperator::SignedRemainder => Some(b"srem"),
        BinaryOperator::ShiftLeft => Some(b"shl"),
        BinaryOperator::LogicalShiftRight => Some(b"lshr"),
        BinaryOperator::ArithmeticShiftRight => Some(b"ashr"),
        BinaryOperator::And => Some(b"and"),
        BinaryOperator::Or => Some(b"or"),
        BinaryOperator::Xor => Some(b"xor"),
        _ => None,
    }
}

// The opcode of the comparison with its predicate.
fn compare_opcode(predicate: Predicate) -> &'static [u8] {
    match predicate {
        Predicate::Equal => b"icmp eq",
        Predicate::NotEqual => b"icmp ne",
        Predicate::SignedLess => b"icmp slt",
        Predicate::SignedLessEqual => b"icmp sle",
        Predicate::SignedGreater => b"icmp sgt",
        Predicate::SignedGreaterEqual => b"icmp sge",
        Predicate::UnsignedLess => b"icmp ult",
        Predicate::UnsignedLessEqual => b"icmp ule",
        Predicate::UnsignedGreater => b"icmp ugt",
        Predicate::UnsignedGreaterEqual => b"icmp uge",
    }
}

// The opcode of the cast.
fn cast_opcode(cast: Cast) -> &'static [u8] {
    match cast {
        Cast::ZeroExtend => b"zext",
        Cast::SignExtend => b"sext",
        Cast::Truncate => b"trunc",
    }
}

// The text of a comparison with this head.
fn compare_text(head: &Head) -> Option<IntegerText> {
    let comparison = Comparison::of_head(head)?;
    Some(IntegerText {
        opcode: compare_opcode(comparison.predicate),
        flags: Flags::NONE,
        from: comparison.width,
        to: None,
    })
}

// The text of a cast with this head.
fn cast_text(cast: Cast, head: &Head) -> Option<IntegerText> {
    let conversion = Conversion::of_head(cast, head)?;
    Some(IntegerText {
        opcode: cast_opcode(cast),
        flags: conversion.flags,
        from: conversion.width,
        to: Some(conversion.to),
    })
}

// The text of an operator with this head.
fn binary_text(operator: BinaryOperator, head: &Head) -> Option<IntegerText> {
    let arithmetic = Arithmetic::of_head(operator, head)?;
    Some(IntegerText {
        opcode: binary_opcode(operator)?,
        flags: arithmetic.flags,
        from: arithmetic.width,
        to: None,
    })
}

impl IntegerText {
    /// What the operation with this head is; none of what has another class. Cost: constant.
    pub fn of_head(head: &Head) -> Option<IntegerText> {
        match class_of_head(head)? {
            Class::Compare => compare_text(head),
            Class::Cast(cast) => cast_text(cast, head),
            Class::Binary(operator) => binary_text(operator, head),
            _ => None,
        }
    }

    /// Appends what is before the operands. Errors: allocation failure. Cost: constant.
    pub fn write_before(self, out: &mut Vec<u8>) -> Result<(), AllocError> {
        out.extend_from_slice(self.opcode)?;
        write_flags(self.flags, out)?;
        write_type(self.from, out)
    }

    /// Appends what is behind the operands. Errors: allocation failure. Cost: constant.
    pub fn write_behind(self, out: &mut Vec<u8>) -> Result<(), AllocError> {
        match self.to {
            Some(width) => {
                out.extend_from_slice(b" to")?;
                write_type(width, out)
            }
            None => Ok(()),
        }
    }
}

// Appends the type of integers of this width behind a blank.
fn write_type(width: u32, out: &mut Vec<u8>) -> Result<(), AllocError> {
    out.extend_from_slice(b" i")?;
    write_number(u64::from(width), out)
}

// Appends the flag behind a blank, if it is set.
fn write_flag(is_set: bool, word: &[u8], out: &mut Vec<u8>) -> Result<(), AllocError> {
    if is_set {
        out.extend_from_slice(word)
    } else {
        Ok(())
    }
}

// Appends the flags, in the order in which LLVM prints them.
fn write_flags(flags: Flags, out: &mut Vec<u8>) -> Result<(), AllocError> {
    write_flag(flags.nonnegative, b" nneg", out)?;
    write_flag(flags.no_unsigned_wrap, b" nuw", out)?;
    write_flag(flags.no_signed_wrap, b" nsw", out)?;
    write_flag(flags.exact, b" exact", out)?;
    write_flag(flags.disjoint, b" disjoint", out)
}
