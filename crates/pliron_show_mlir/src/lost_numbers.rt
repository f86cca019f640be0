//! Why operations on integers give no number.
ghost use Rattle.std.specs.Prelude.{◌≡◌, true, map, None, IfSome};
ghost use Rattle.pliron_laws.specs.Datum.{Number as NumberOf};
ghost use Rattle.pliron_evaluator.specs.Evaluator.{datum_of_value};
ghost use Rattle.pliron_dialect.specs.Roles.{knows_in};
ghost use Rattle.pliron_dialect_mlir.specs.Classes.{role_of_class};
ghost use Rattle.pliron_dialect_mlir.specs.declared.kind.Class.TheVariants.{Binary, Cast as CastOf};
ghost use Rattle.pliron_show_mlir.specs.LostNumbers.{LosesBy, LosesNumber};

use crate::words::number_in;
use pliron_bits::{BinaryOperator, Cast};
use pliron_core::Head;
use pliron_dialect::Roles;
use pliron_dialect_mlir::{AnyMeaning, Class, MlirKind, class_of_head, counted_bits, integer_of};
use pliron_evaluator::evaluator::Datum;
use std::marker::PhantomData;

/// What is said of flags that the operation broke.
static BROKEN_FLAGS: &str = "its flags promise another result";

// Whether it divides.
fn divides(operator: BinaryOperator) -> bool {
    matches!(
        operator,
        BinaryOperator::UnsignedDivide
            | BinaryOperator::SignedDivide
            | BinaryOperator::UnsignedRemainder
            | BinaryOperator::SignedRemainder
            | BinaryOperator::UnsignedDivideUp
            | BinaryOperator::SignedDivideUp
            | BinaryOperator::SignedDivideDown
    )
}

// Whether it shifts.
fn shifts(operator: BinaryOperator) -> bool {
    matches!(
        operator,
        BinaryOperator::ShiftLeft
            | BinaryOperator::LogicalShiftRight
            | BinaryOperator::ArithmeticShiftRight
    )
}

// Whether all bits of this width are 1.
fn is_minus_one(width: u32, bits: u64) -> bool {
    bits.count_ones() == width
}

// Why this operator gives no number, where the second one has these bits.
fn binary_label(operator: BinaryOperator, width: u32, second: u64) -> &'static str {
    if divides(operator) && second == 0 {
        return "the divisor is 0";
    }
    if divides(operator) && is_minus_one(width, second) {
        return "the quotient doesn't fit in its width";
    }
    if shifts(operator) && second >= u64::from(width) {
        return "it shifts by its width or more";
    }
    BROKEN_FLAGS
}

// The number and its bits, where the datum is an integer.
fn number_and_bits(datum: &Datum) -> Option<(i128, u32, u64)>
    ensures { IfSome result (λ found. datum_of_value datum.now ≡ NumberOf found.0) }
{
    let number = number_in(datum)?;
    let (width, bits) = integer_of(number)?;
    Some((number, width, bits))
}

// Whether the table of an operation of the class with this head gives nothing of these numbers.
fn gives_nothing(class: Class, head: &Head, numbers: &[Option<i128>]) -> bool
    ensures { result ≡ true → knows_in (role_of_class class) head.now numbers.now ≡ None }
{
    let kind = MlirKind::<AnyMeaning> {
        class,
        meaning: PhantomData,
    };
    kind.fold_numbers(head, numbers).is_none()
}

// Why an operation with this operator and this head gives no number of these data, where they are numbers and it gives
// none.
fn lost_by_binary(operator: BinaryOperator, head: &Head, input: &[Datum]) -> Option<&'static str>
    ensures { IfSome result (λ label. LosesBy (Binary operator) head.now (map datum_of_value input.now)) }
{
    if input.len() != 2 {
        return None;
    }
    let (first, width, _) = number_and_bits(&input[0])?;
    let (second, other, bits) = number_and_bits(&input[1])?;
    let numbers = [Some(first), Some(second)];
    if width != other || width > 65 || !gives_nothing(Class::Binary(operator), head, &numbers) {
        return None;
    }
    Some(binary_label(operator, counted_bits(width), bits))
}

// The same of a cast.
fn lost_by_cast(cast: Cast, head: &Head, input: &[Datum]) -> Option<&'static str>
    ensures { IfSome result (λ label. LosesBy (CastOf cast) head.now (map datum_of_value input.now)) }
{
    if input.len() != 1 {
        return None;
    }
    let (number, _, _) = number_and_bits(&input[0])?;
    if gives_nothing(Class::Cast(cast), head, &[Some(number)]) {
        Some(BROKEN_FLAGS)
    } else {
        None
    }
}

// The same of an operation of this class.
fn lost_by_class(class: Class, head: &Head, input: &[Datum]) -> Option<&'static str>
    ensures { IfSome result (λ label. LosesBy class head.now (map datum_of_value input.now)) }
{
    match class {
        Class::Binary(operator) => lost_by_binary(operator, head, input),
        Class::Cast(cast) => lost_by_cast(cast, head, input),
        _ => None,
    }
}

/// Why an operation on integers with this head gives no number, which takes numbers; `None` where it gives one or takes
/// none. Cost: constant.
pub fn lost_label(head: &Head, input: &[Datum]) -> Option<&'static str>
    ensures { IfSome result (λ label. LosesNumber head.now (map datum_of_value input.now)) }
{
    match class_of_head(head) {
        Some(class) => lost_by_class(class, head, input),
        None => None,
    }
}
