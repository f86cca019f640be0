//! Masks in the place of casts there and back.
ghost use Rattle.std.specs.Prelude.{◌≡◌, ◌≤◌, Some, IfOk, IfSome, IsOkUnless};
ghost use Rattle.pliron_mlir_rules.specs.MlirRules.{mask_bits as mask_bits_by, mask_term as mask_term_by};

use crate::seen::{CastSource, is_plain_cast, source_of};
use pliron_bits::{BinaryOperator, Cast, Flags, size};
use pliron_core::AttrObj;
use pliron_dialect_mlir::{Arithmetic, Conversion, counted_bits, number};
use pliron_laws::OptError;
use pliron_rewrite_rules::{Atom, Atoms, Operand, Term};
use std::alloc::Global;

// The low bits of the source, so many as the width between has.
fn mask_term(
    alloc: Global,
    conversion: Conversion,
    source: CastSource,
) -> Result<Option<Term>, OptError>
    requires { (conversion.width ≤ 65) × (source.width ≤ 65) }
    ensures ok { IfOk result (λ term. term ≡ mask_term_by conversion (Some source)) }
    ensures memory { IsOkUnless result OptError.Memory }
{
    if source.width != conversion.to {
        return Ok(None);
    }
    let width = source.width;
    let mask = (size(counted_bits(conversion.width)) - 1) as u64;
    let conjunction = Arithmetic {
        width,
        flags: Flags::NONE,
    };
    let head = conjunction.head(BinaryOperator::And, alloc)?;
    let mut atoms = Vec::new(alloc);
    atoms.push(Atom::Named(source.value))?;
    atoms.push(Atom::Constant(AttrObj::Int(number(width, mask))))?;
    Ok(Some(Term::Make(head, Atoms::new(atoms))))
}

// `zext (trunc x)`, where it has the width of `x`, is `x & mask`.
pub(crate) fn mask_bits(
    alloc: Global,
    conversion: Option<Conversion>,
    a: &Operand,
) -> Result<Option<Term>, OptError>
    requires { IfSome conversion (λ c. c.width ≤ 65) }
    ensures ok { IfOk result (λ term. term ≡ mask_bits_by conversion a.now) }
    ensures memory { IsOkUnless result OptError.Memory }
{
    let Some(conversion) = conversion else {
        return Ok(None);
    };
    if !is_plain_cast(Cast::ZeroExtend, conversion) {
        return Ok(None);
    }
    match source_of(Cast::Truncate, conversion.width, a) {
        Some(source) => mask_term(alloc, conversion, source),
        None => Ok(None),
    }
}
