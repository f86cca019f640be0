//! What leaves an operand of integers as it is, or gives one number.
ghost use Rattle.std.specs.Prelude.{◌≡◌, ◌≤◌, option_map};
ghost use Rattle.pliron_dialect_mlir.specs.Data.{bit};
ghost use Rattle.pliron_dialect_mlir.specs.IntegerIdentities.{number_at as number_at_of, zero_at as zero_at_of, one_at as one_at_of, all_ones_at as all_ones_at_of, least_at as least_at_of, greatest_at as greatest_at_of, as_second as as_second_of, as_either as as_either_of};
ghost use Rattle.pliron_dialect_mlir.specs.IntegerIdentities.{with_equal as with_equal_of, with_absorbing as with_absorbing_of, rest_by as rest_by_of, of_cast, holds_of_equal as holds_of_equal_by, of_compare, or_identity as or_identity_of, identity_at as identity_at_of};

use crate::data::{counted_bits, is_width, number};
use pliron_bits::{BinaryOperator, Flags, Predicate, size};
use pliron_dialect::{Absorption, Identity};

// The number of the width with these bits.
fn number_at(width: u32, bits: u64) -> Option<i128>
    ensures { result ≡ number_at_of width bits }
{
    if is_width(width) {
        Some(number(width, bits))
    } else {
        None
    }
}

// The number 0 of the width.
fn zero_at(width: u32) -> Option<i128>
    ensures { result ≡ zero_at_of width }
{
    number_at(width, 0)
}

// The number 1 of the width, which has more bits than one.
fn one_at(width: u32) -> Option<i128>
    ensures { result ≡ one_at_of width }
{
    if is_width(width) && 1 < width {
        Some(number(width, 1))
    } else {
        None
    }
}

// The number of the width with all bits.
fn all_ones_at(width: u32) -> Option<i128>
    ensures { result ≡ all_ones_at_of width }
{
    if is_width(width) {
        let bits = size(counted_bits(width)) - 1;
        Some(number(width, bits as u64))
    } else {
        None
    }
}

// The least number of the width, read as signed.
fn least_at(width: u32) -> Option<i128>
    ensures { result ≡ least_at_of width }
{
    if is_width(width) {
        let bits = size(counted_bits(width) - 1);
        Some(number(width, bits as u64))
    } else {
        None
    }
}

// The greatest number of the width, read as signed.
fn greatest_at(width: u32) -> Option<i128>
    ensures { result ≡ greatest_at_of width }
{
    if is_width(width) {
        let bits = size(counted_bits(width) - 1) - 1;
        Some(number(width, bits as u64))
    } else {
        None
    }
}

// The number leaves the first operand.
fn as_second(neutral: Option<i128>) -> Identity
    ensures { result ≡ as_second_of neutral }
{
    Identity {
        neutral,
        ..Identity::none()
    }
}

// The number leaves either operand, and equal ones the first.
fn as_either(neutral: Option<i128>, idempotent: bool) -> Identity
    ensures { result ≡ as_either_of neutral idempotent }
{
    Identity {
        neutral,
        either_side: true,
        idempotent,
        ..Identity::none()
    }
}

// Equal operands give the number.
fn with_equal(identity: Identity, equal: Option<i128>) -> Identity
    ensures { result ≡ with_equal_of identity equal }
{
    Identity { equal, ..identity }
}

// The number gives itself, whatever the other operand is.
fn with_absorbing(identity: Identity, number: Option<i128>) -> Identity
    ensures { result ≡ with_absorbing_of identity number }
{
    let absorbing = match number {
        Some(number) => Some(Absorption {
            operand: number,
            result: number,
        }),
        None => None,
    };
    Identity {
        absorbing,
        ..identity
    }
}

// The number as the second operand gives 0.
fn rest_by(width: u32, operand: Option<i128>) -> Identity
    requires { width ≤ 65 }
    ensures { result ≡ rest_by_of width operand }
{
    let absorbing = match operand {
        Some(operand) => Some(Absorption {
            operand,
            result: number(width, 0),
        }),
        None => None,
    };
    Identity {
        absorbing,
        ..Identity::none()
    }
}

/// Whether a cast from one width to the other leaves its operand. Cost: constant.
pub fn identity_of_cast(width: u32, to: u32) -> Identity
    ensures { result ≡ of_cast width to }
{
    Identity {
        only: is_width(width) && width == to,
        ..Identity::none()
    }
}

// Whether the predicate holds of equal numbers.
fn holds_of_equal(predicate: Predicate) -> bool
    ensures { result ≡ holds_of_equal_by predicate }
{
    match predicate {
        Predicate::Equal => true,
        Predicate::NotEqual => false,
        Predicate::SignedLess => false,
        Predicate::SignedLessEqual => true,
        Predicate::SignedGreater => false,
        Predicate::SignedGreaterEqual => true,
        Predicate::UnsignedLess => false,
        Predicate::UnsignedLessEqual => true,
        Predicate::UnsignedGreater => false,
        Predicate::UnsignedGreaterEqual => true,
    }
}

/// What a comparison of equal numbers of this width gives. Cost: constant.
pub fn identity_of_compare(predicate: Option<Predicate>, width: u32) -> Identity
    ensures { result ≡ of_compare predicate width }
{
    if !is_width(width) {
        return Identity::none();
    }
    let equal = match predicate {
        Some(predicate) => Some(number(1, u64::from(holds_of_equal(predicate)))),
        None => None,
    };
    with_equal(Identity::none(), equal)
}

// That of an `or`, which may promise that no bit is common.
fn or_identity(disjoint: bool, width: u32) -> Identity
    ensures { result ≡ or_identity_of disjoint width }
{
    if disjoint {
        as_either(zero_at(width), false)
    } else {
        with_absorbing(as_either(zero_at(width), true), all_ones_at(width))
    }
}

/// What leaves an operand of the operator, with these flags, at this width, or gives one number. Asks for a width of
/// at most that of `index`. Cost: constant.
pub fn identity_at(operator: BinaryOperator, flags: Flags, width: u32) -> Identity
    requires { width ≤ 65 }
    ensures { result ≡ identity_at_of operator flags width }
{
    let zero = zero_at(width);
    match operator {
        BinaryOperator::Add => as_either(zero, false),
        BinaryOperator::Subtract => with_equal(as_second(zero), zero),
        BinaryOperator::Multiply => with_absorbing(as_either(one_at(width), false), zero),
        BinaryOperator::UnsignedDivide => as_second(one_at(width)),
        BinaryOperator::SignedDivide => as_second(one_at(width)),
        BinaryOperator::UnsignedRemainder => rest_by(width, number_at(width, 1)),
        BinaryOperator::SignedRemainder => rest_by(width, one_at(width)),
        BinaryOperator::ShiftLeft => as_second(zero),
        BinaryOperator::LogicalShiftRight => as_second(zero),
        BinaryOperator::ArithmeticShiftRight => as_second(zero),
        BinaryOperator::And => with_absorbing(as_either(all_ones_at(width), true), zero),
        BinaryOperator::Or => or_identity(flags.disjoint, width),
        BinaryOperator::Xor => with_equal(as_either(zero, false), zero),
        BinaryOperator::UnsignedMinimum => with_absorbing(as_either(None, true), zero),
        BinaryOperator::SignedMinimum => with_absorbing(as_either(None, true), least_at(width)),
        BinaryOperator::UnsignedMaximum => with_absorbing(
            as_either(None, true),
            all_ones_at(width),
        ),
        BinaryOperator::SignedMaximum => with_absorbing(as_either(None, true), greatest_at(width)),
        BinaryOperator::UnsignedDivideUp => as_second(one_at(width)),
        BinaryOperator::SignedDivideUp => as_second(one_at(width)),
        BinaryOperator::SignedDivideDown => as_second(one_at(width)),
    }
}
