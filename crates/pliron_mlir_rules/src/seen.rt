//! What is seen of operands.
ghost use Rattle.std.specs.Prelude.{◌≡◌, ◌≤◌, ◌<◌, ◌^◌, IfSome};
ghost use Rattle.pliron_rewrite_rules.specs.Views.{leaf_value as leaf_value_by, operand_value as operand_value_by};
ghost use Rattle.pliron_dialect_mlir.specs.Data.{bits_of_width};
ghost use Rattle.pliron_mlir_rules.specs.MlirRules.{constant_bits as constant_bits_by, known_bits as known_bits_by};
ghost use Rattle.pliron_mlir_rules.specs.MlirRules.{constant_leaves as constant_leaves_by, constant_operation as constant_operation_by};
ghost use Rattle.pliron_mlir_rules.specs.MlirRules.{is_plain_cast as is_plain_cast_by, leaf_bits as leaf_bits_by};
ghost use Rattle.pliron_mlir_rules.specs.MlirRules.{source_leaf as source_leaf_by, source_of as source_of_by};
ghost use Rattle.pliron_mlir_rules.specs.MlirRules.{operation_alike as operation_alike_by, promise_alike as promise_alike_by};
ghost use Rattle.pliron_mlir_rules.specs.MlirRules.{promises_nothing as promises_nothing_by, wraps_freely as wraps_freely_by};

use pliron_bits::{BinaryOperator, Cast, Flags};
use pliron_core::{AttrObj, Value};
use pliron_dialect_mlir::{Arithmetic, Conversion, bits_at, counted_bits};
use pliron_rewrite_rules::{Leaf, Operand};

// A value that is cast, and its width.
#[derive(Clone, Copy)]
pub(crate) struct CastSource {
    pub(crate) value: Value,
    pub(crate) width: u32,
}

// A value, and the bits of a constant that is computed with it.
#[derive(Clone, Copy)]
pub(crate) struct ConstantOperation {
    pub(crate) value: Value,
    pub(crate) constant: u64,
}

// The bits of the constant, where it is an integer of this width.
fn constant_bits(width: u32, constant: &AttrObj) -> Option<u64>
    ensures same { result ≡ constant_bits_by width constant.now }
    ensures below { IfSome result (λ bits. bits < 2 ^ bits_of_width width) }
    ensures width { IfSome result (λ bits. (1 ≤ width) × (width ≤ 65)) }
{
    match constant {
        AttrObj::Int(datum) => bits_at(width, *datum),
        AttrObj::Text(_) => None,
    }
}

// The bits of the integer of this width that the leaf is known to be.
pub(crate) fn leaf_bits(width: u32, leaf: &Leaf) -> Option<u64>
    ensures same { result ≡ leaf_bits_by width leaf.now }
    ensures below { IfSome result (λ bits. bits < 2 ^ bits_of_width width) }
    ensures width { IfSome result (λ bits. (1 ≤ width) × (width ≤ 65)) }
{
    match leaf {
        Leaf::Unknown(_) => None,
        Leaf::Known(_, constant) => constant_bits(width, constant),
    }
}

// The bits of the integer of this width that the operand is known to be.
pub(crate) fn known_bits(width: u32, operand: &Operand) -> Option<u64>
    ensures same { result ≡ known_bits_by width operand.now }
    ensures below { IfSome result (λ bits. bits < 2 ^ bits_of_width width) }
    ensures width { IfSome result (λ bits. (1 ≤ width) × (width ≤ 65)) }
{
    match operand {
        Operand::Plain(leaf) => leaf_bits(width, leaf),
        Operand::Made(_, _, _) => None,
    }
}

// The value of the leaf.
pub(crate) fn leaf_value(leaf: &Leaf) -> Value
    ensures { result ≡ leaf_value_by leaf.now }
{
    match leaf {
        Leaf::Unknown(value) => *value,
        Leaf::Known(value, _) => *value,
    }
}

// The value of the operand.
pub(crate) fn operand_value(operand: &Operand) -> Value
    ensures { result ≡ operand_value_by operand.now }
{
    match operand {
        Operand::Plain(leaf) => leaf_value(leaf),
        Operand::Made(value, _, _) => *value,
    }
}

// Whether sums may wrap, and truncations lose any bits.
pub(crate) fn wraps_freely(flags: Flags) -> bool
    ensures { result ≡ wraps_freely_by flags }
{
    !flags.no_signed_wrap && !flags.no_unsigned_wrap
}

// Whether results may wrap, and operands may have bits in common.
pub(crate) fn promises_nothing(flags: Flags) -> bool
    ensures { result ≡ promises_nothing_by flags }
{
    wraps_freely(flags) && !flags.disjoint
}

// Whether both promise the same of how results wrap, and neither that operands have no bits in common.
fn promise_alike(f: Flags, g: Flags) -> bool
    ensures { result ≡ promise_alike_by f g }
{
    let signed = f.no_signed_wrap == g.no_signed_wrap;
    let unsigned = f.no_unsigned_wrap == g.no_unsigned_wrap;
    (signed && unsigned) && (!f.disjoint && !g.disjoint)
}

// Whether the cast has more bits, or fewer, as its name says, and promises nothing.
pub(crate) fn is_plain_cast(cast: Cast, conversion: Conversion) -> bool
    ensures { result ≡ is_plain_cast_by cast conversion }
{
    let from = counted_bits(conversion.width);
    let to = counted_bits(conversion.to);
    match cast {
        Cast::ZeroExtend => from < to && !conversion.flags.nonnegative,
        Cast::SignExtend => from < to,
        Cast::Truncate => to < from && wraps_freely(conversion.flags),
    }
}

// The value that an operation with this head and these operands casts to this width.
fn source_leaf(
    cast: Cast,
    to: u32,
    conversion: Option<Conversion>,
    leaves: &[Leaf],
) -> Option<CastSource>
    requires { IfSome conversion (λ c. c.width ≤ 65) }
    ensures same { result ≡ source_leaf_by cast to conversion leaves.now }
    ensures small { IfSome result (λ s. s.width ≤ 65) }
{
    let [leaf] = leaves else {
        return None;
    };
    let Some(conversion) = conversion else {
        return None;
    };
    if conversion.to == to && is_plain_cast(cast, conversion) {
        Some(CastSource {
            value: leaf_value(leaf),
            width: conversion.width,
        })
    } else {
        None
    }
}

// The value that the operand casts to this width.
pub(crate) fn source_of(cast: Cast, to: u32, operand: &Operand) -> Option<CastSource>
    ensures same { result ≡ source_of_by cast to operand.now }
    ensures small { IfSome result (λ s. s.width ≤ 65) }
{
    match operand {
        Operand::Plain(_) => None,
        Operand::Made(_, head, leaves) => source_leaf(
            cast,
            to,
            Conversion::of_head(cast, head),
            leaves.as_slice(),
        ),
    }
}

// The value and the constant of an operation with these operands, where it promises what these flags do.
fn constant_leaves(
    flags: Flags,
    width: u32,
    arithmetic: Option<Arithmetic>,
    leaves: &[Leaf],
) -> Option<ConstantOperation>
    ensures same { result ≡ constant_leaves_by flags width arithmetic leaves.now }
    ensures below { IfSome result (λ s. s.constant < 2 ^ bits_of_width width) }
{
    let [value, constant] = leaves else {
        return None;
    };
    let Some(arithmetic) = arithmetic else {
        return None;
    };
    if arithmetic.width != width || !promise_alike(flags, arithmetic.flags) {
        return None;
    }
    match leaf_bits(width, constant) {
        Some(constant) => Some(ConstantOperation {
            value: leaf_value(value),
            constant,
        }),
        None => None,
    }
}

// The value and the constant of which this operator makes the operand, where it promises what these flags do.
pub(crate) fn operation_alike(
    operator: BinaryOperator,
    flags: Flags,
    width: u32,
    operand: &Operand,
) -> Option<ConstantOperation>
    ensures same { result ≡ operation_alike_by operator flags width operand.now }
    ensures below { IfSome result (λ s. s.constant < 2 ^ bits_of_width width) }
{
    match operand {
        Operand::Plain(_) => None,
        Operand::Made(_, head, leaves) => constant_leaves(
            flags,
            width,
            Arithmetic::of_head(operator, head),
            leaves.as_slice(),
        ),
    }
}

// The value and the constant of which this operator makes the operand, where it promises nothing.
pub(crate) fn constant_operation(
    operator: BinaryOperator,
    width: u32,
    operand: &Operand,
) -> Option<ConstantOperation>
    ensures same { result ≡ constant_operation_by operator width operand.now }
    ensures below { IfSome result (λ s. s.constant < 2 ^ bits_of_width width) }
{
    operation_alike(operator, Flags::NONE, width, operand)
}
