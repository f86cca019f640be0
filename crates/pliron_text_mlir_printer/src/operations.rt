//! How operations on integers are printed that passes made.
use crate::constants::{TargetDialect, write_number, write_type};
use pliron_bits::{BinaryOperator, Cast, Flags};
use pliron_core::Head;
use pliron_dialect_mlir::{Arithmetic, Class, Comparison, Conversion, class_of_head};
use std::alloc::AllocError;

/// The width of `index`.
const INDEX: u32 = 65;

/// An operation on integers, with the widths of its operands and its result.
#[derive(Clone, Copy, Debug, PartialEq, Eq)]
pub enum IntegerOperation {
    Compare(Comparison),
    Cast(Cast, Conversion),
    Binary(BinaryOperator, Arithmetic),
}

impl IntegerOperation {
    /// The operation on integers with this head, if it is one. Cost: constant.
    pub fn of_head(head: &Head) -> Option<IntegerOperation> {
        match class_of_head(head)? {
            Class::Compare => Some(IntegerOperation::Compare(Comparison::of_head(head)?)),
            Class::Cast(cast) => Some(IntegerOperation::Cast(
                cast,
                Conversion::of_head(cast, head)?,
            )),
            Class::Binary(operator) => Some(IntegerOperation::Binary(
                operator,
                Arithmetic::of_head(operator, head)?,
            )),
            _ => None,
        }
    }

    /// The width of the result. Cost: constant.
    pub fn width(self) -> u32 {
        match self {
            IntegerOperation::Compare(_) => 1,
            IntegerOperation::Cast(_, conversion) => conversion.to,
            IntegerOperation::Binary(_, arithmetic) => arithmetic.width,
        }
    }

    // The name without the dialect's.
    fn name(self, dialect: TargetDialect) -> &'static [u8] {
        match self {
            IntegerOperation::Compare(_) => match dialect {
                TargetDialect::Llvm => b"\"llvm.icmp\"",
                TargetDialect::Standard => b"\"arith.cmpi\"",
            },
            IntegerOperation::Cast(cast, conversion) => match dialect {
                TargetDialect::Llvm => llvm_cast(cast),
                TargetDialect::Standard => standard_cast(cast, conversion),
            },
            IntegerOperation::Binary(operator, _) => match dialect {
                TargetDialect::Llvm => llvm_binary(operator),
                TargetDialect::Standard => standard_binary(operator),
            },
        }
    }

    // The flags.
    fn flags(self) -> Flags {
        match self {
            IntegerOperation::Compare(_) => Flags::NONE,
            IntegerOperation::Cast(_, conversion) => conversion.flags,
            IntegerOperation::Binary(_, arithmetic) => arithmetic.flags,
        }
    }

    /// Writes the name. Errors: allocation failure. Cost: constant.
    pub fn write_name(self, dialect: TargetDialect, out: &mut Vec<u8>) -> Result<(), AllocError> {
        out.extend_from_slice(self.name(dialect))
    }

    /// Writes the property list, where there is one. Errors: allocation failure. Cost: constant.
    pub fn write_properties(
        self,
        dialect: TargetDialect,
        out: &mut Vec<u8>,
    ) -> Result<(), AllocError> {
        if let IntegerOperation::Compare(comparison) = self {
            out.extend_from_slice(b" <{predicate = ")?;
            write_number(comparison.predicate.number() as u64, out)?;
            return out.extend_from_slice(b" : i64}>");
        }
        write_flags(self.flags(), dialect, out)
    }

    /// Writes the type of the result. Errors: allocation failure. Cost: constant.
    pub fn write_result(self, out: &mut Vec<u8>) -> Result<(), AllocError> {
        write_type(self.width(), out)
    }
}

fn llvm_cast(cast: Cast) -> &'static [u8] {
    match cast {
        Cast::ZeroExtend => b"\"llvm.zext\"",
        Cast::SignExtend => b"\"llvm.sext\"",
        Cast::Truncate => b"\"llvm.trunc\"",
    }
}

fn standard_cast(cast: Cast, conversion: Conversion) -> &'static [u8] {
    let is_index = conversion.width == INDEX || conversion.to == INDEX;
    match cast {
        Cast::ZeroExtend if is_index => b"\"arith.index_castui\"",
        Cast::ZeroExtend => b"\"arith.extui\"",
        _ if is_index => b"\"arith.index_cast\"",
        Cast::SignExtend => b"\"arith.extsi\"",
        Cast::Truncate => b"\"arith.trunci\"",
    }
}

fn llvm_binary(operator: BinaryOperator) -> &'static [u8] {
    match operator {
        BinaryOperator::Add => b"\"llvm.add\"",
        BinaryOperator::Subtract => b"\"llvm.sub\"",
        BinaryOperator::Multiply => b"\"llvm.mul\"",
        BinaryOperator::UnsignedDivide => b"\"llvm.udiv\"",
        BinaryOperator::SignedDivide => b"\"llvm.sdiv\"",
        BinaryOperator::UnsignedRemainder => b"\"llvm.urem\"",
        BinaryOperator::SignedRemainder => b"\"llvm.srem\"",
        BinaryOperator::ShiftLeft => b"\"llvm.shl\"",
        BinaryOperator::LogicalShiftRight => b"\"llvm.lshr\"",
        BinaryOperator::ArithmeticShiftRight => b"\"llvm.ashr\"",
        BinaryOperator::And => b"\"llvm.and\"",
        BinaryOperator::Or => b"\"llvm.or\"",
        BinaryOperator::Xor => b"\"llvm.xor\"",
        BinaryOperator::UnsignedMinimum => b"\"llvm.intr.umin\"",
        BinaryOperator::SignedMinimum => b"\"llvm.intr.smin\"",
        BinaryOperator::UnsignedMaximum => b"\"llvm.intr.umax\"",
        BinaryOperator::SignedMaximum => b"\"llvm.intr.smax\"",
        BinaryOperator::UnsignedDivideUp => b"\"arith.ceildivui\"",
        BinaryOperator::SignedDivideUp => b"\"arith.ceildivsi\"",
        BinaryOperator::SignedDivideDown => b"\"arith.floordivsi\"",
    }
}

fn standard_binary(operator: BinaryOperator) -> &'static [u8] {
    match operator {
        BinaryOperator::Add => b"\"arith.addi\"",
        BinaryOperator::Subtract => b"\"arith.subi\"",
        BinaryOperator::Multiply => b"\"arith.muli\"",
        BinaryOperator::UnsignedDivide => b"\"arith.divui\"",
        BinaryOperator::SignedDivide => b"\"arith.divsi\"",
        BinaryOperator::UnsignedRemainder => b"\"arith.remui\"",
        BinaryOperator::SignedRemainder => b"\"arith.remsi\"",
        BinaryOperator::ShiftLeft => b"\"arith.shli\"",
        BinaryOperator::LogicalShiftRight => b"\"arith.shrui\"",
        BinaryOperator::ArithmeticShiftRight => b"\"arith.shrsi\"",
        BinaryOperator::And => b"\"arith.andi\"",
        BinaryOperator::Or => b"\"arith.ori\"",
        BinaryOperator::Xor => b"\"arith.xori\"",
        BinaryOperator::UnsignedMinimum => b"\"arith.minui\"",
        BinaryOperator::SignedMinimum => b"\"arith.minsi\"",
        BinaryOperator::UnsignedMaximum => b"\"arith.maxui\"",
        BinaryOperator::SignedMaximum => b"\"arith.maxsi\"",
        BinaryOperator::UnsignedDivideUp => b"\"arith.ceildivui\"",
        BinaryOperator::SignedDivideUp => b"\"arith.ceildivsi\"",
        BinaryOperator::SignedDivideDown => b"\"arith.floordivsi\"",
    }
}

// The name of the flags of overflow, and the list of them.
fn overflow_words(flags: Flags) -> &'static [u8] {
    match (flags.no_signed_wrap, flags.no_unsigned_wrap) {
        (true, true) => b"overflow<nsw, nuw>",
        (true, false) => b"overflow<nsw>",
        (false, true) => b"overflow<nuw>",
        (false, false) => b"overflow<none>",
    }
}

// The one word for a flag that isn't one of overflow.
fn other_word(flags: Flags) -> &'static [u8] {
    if flags.exact {
        b"isExact"
    } else if flags.disjoint {
        b"isDisjoint"
    } else {
        b"nonNeg"
    }
}

// Writes the flags, where there are some.
fn write_flags(flags: Flags, dialect: TargetDialect, out: &mut Vec<u8>) -> Result<(), AllocError> {
    if flags == Flags::NONE {
        return Ok(());
    }
    out.extend_from_slice(b" <{")?;
    if flags.no_signed_wrap || flags.no_unsigned_wrap {
        out.extend_from_slice(match dialect {
            TargetDialect::Llvm => b"overflowFlags = #llvm.".as_slice(),
            TargetDialect::Standard => b"overflowFlags = #arith.".as_slice(),
        })?;
        out.extend_from_slice(overflow_words(flags))?;
    } else {
        out.extend_from_slice(other_word(flags))?;
    }
    out.extend_from_slice(b"}>")
}
