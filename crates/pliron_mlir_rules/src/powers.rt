//! Products, quotients and remainders by powers of two.
ghost use Rattle.std.specs.Prelude.{◌≡◌, ◌≤◌, IfOk, IfSome, IsOkUnless};
ghost use Rattle.pliron_mlir_rules.specs.MlirRules.{arithmetic_with as arithmetic_with_by, exponent_of as exponent_of_by};
ghost use Rattle.pliron_mlir_rules.specs.MlirRules.{known_bits as known_bits_by, known_exponent as known_exponent_by, mask_remainder as mask_remainder_by};
ghost use Rattle.pliron_mlir_rules.specs.MlirRules.{rules_of_powers as rules_of_powers_by};
ghost use Rattle.pliron_mlir_rules.specs.MlirRules.{shift_product as shift_product_by, shift_quotient as shift_quotient_by};

use crate::seen::{known_bits, operand_value};
use pliron_bits::{BinaryOperator, Flags, size};
use pliron_core::{AttrObj, Head, Value};
use pliron_dialect_mlir::{Arithmetic, counted_bits, number};
use pliron_laws::OptError;
use pliron_rewrite_rules::{Atom, Atoms, Operand, Term};
use std::alloc::Global;

// The exponent, where the number is two to a power that isn't 0.
fn exponent_of(constant: u64) -> Option<u32>
    ensures same { result ≡ exponent_of_by constant }
    ensures below { IfSome result (λ k. k ≤ 64) }
{
    let exponent = constant.trailing_zeros();
    if 0 < exponent && size(exponent) == constant as u128 {
        Some(exponent)
    } else {
        None
    }
}

// The exponent of the number that the operand is known to be.
fn known_exponent(width: u32, operand: &Operand) -> Option<u32>
    ensures same { result ≡ known_exponent_by (known_bits_by width operand.now) }
    ensures below { IfSome result (λ k. k ≤ 64) }
    ensures width { IfSome result (λ k. width ≤ 65) }
{
    match known_bits(width, operand) {
        Some(constant) => exponent_of(constant),
        None => None,
    }
}

// The operation on the value and a constant.
pub(crate) fn arithmetic_with(
    alloc: Global,
    operator: BinaryOperator,
    arithmetic: Arithmetic,
    value: Value,
    constant: u64,
) -> Result<Term, OptError>
    requires { arithmetic.width ≤ 65 }
    ensures ok { IfOk result (λ term. term ≡ arithmetic_with_by operator arithmetic value constant) }
    ensures memory { IsOkUnless result OptError.Memory }
{
    let head = arithmetic.head(operator, alloc)?;
    let mut atoms = Vec::new(alloc);
    atoms.push(Atom::Named(value))?;
    atoms.push(Atom::Constant(AttrObj::Int(number(arithmetic.width, constant))))?;
    Ok(Term::Make(head, Atoms::new(atoms)))
}

// `x * 2^k` is `x << k`.
fn shift_product(
    alloc: Global,
    product: Option<Arithmetic>,
    a: &Operand,
    b: &Operand,
) -> Result<Option<Term>, OptError>
    ensures ok { IfOk result (λ term. term ≡ shift_product_by product a.now b.now) }
    ensures memory { IsOkUnless result OptError.Memory }
{
    let Some(product) = product else {
        return Ok(None);
    };
    let Some(exponent) = known_exponent(product.width, b) else {
        return Ok(None);
    };
    if product.flags.no_signed_wrap && exponent + 1 == counted_bits(product.width) {
        return Ok(None);
    }
    let operator = BinaryOperator::ShiftLeft;
    let term = arithmetic_with(alloc, operator, product, operand_value(a), exponent as u64)?;
    Ok(Some(term))
}

// `x udiv 2^k` is `x >> k`.
fn shift_quotient(
    alloc: Global,
    quotient: Option<Arithmetic>,
    a: &Operand,
    b: &Operand,
) -> Result<Option<Term>, OptError>
    ensures ok { IfOk result (λ term. term ≡ shift_quotient_by quotient a.now b.now) }
    ensures memory { IsOkUnless result OptError.Memory }
{
    let Some(quotient) = quotient else {
        return Ok(None);
    };
    let Some(exponent) = known_exponent(quotient.width, b) else {
        return Ok(None);
    };
    let operator = BinaryOperator::LogicalShiftRight;
    let term = arithmetic_with(alloc, operator, quotient, operand_value(a), exponent as u64)?;
    Ok(Some(term))
}

// `x urem 2^k` is `x & (2^k - 1)`.
fn mask_remainder(
    alloc: Global,
    remainder: Option<Arithmetic>,
    a: &Operand,
    b: &Operand,
) -> Result<Option<Term>, OptError>
    ensures ok { IfOk result (λ term. term ≡ mask_remainder_by remainder a.now b.now) }
    ensures memory { IsOkUnless result OptError.Memory }
{
    let Some(remainder) = remainder else {
        return Ok(None);
    };
    let Some(exponent) = known_exponent(remainder.width, b) else {
        return Ok(None);
    };
    let conjunction = Arithmetic {
        width: remainder.width,
        flags: Flags::NONE,
    };
    let mask = (size(exponent) - 1) as u64;
    let term = arithmetic_with(
        alloc,
        BinaryOperator::And,
        conjunction,
        operand_value(a),
        mask,
    )?;
    Ok(Some(term))
}

// What these rules answer for an operation with this head.
pub(crate) fn rules_of_powers(
    alloc: Global,
    head: &Head,
    a: &Operand,
    b: &Operand,
) -> Result<Option<Term>, OptError>
    ensures ok { IfOk result (λ term. term ≡ rules_of_powers_by head.now a.now b.now) }
    ensures memory { IsOkUnless result OptError.Memory }
{
    let product = Arithmetic::of_head(BinaryOperator::Multiply, head);
    if let Some(term) = shift_product(alloc, product, a, b)? {
        return Ok(Some(term));
    }
    let quotient = Arithmetic::of_head(BinaryOperator::UnsignedDivide, head);
    if let Some(term) = shift_quotient(alloc, quotient, a, b)? {
        return Ok(Some(term));
    }
    let remainder = Arithmetic::of_head(BinaryOperator::UnsignedRemainder, head);
    mask_remainder(alloc, remainder, a, b)
}
