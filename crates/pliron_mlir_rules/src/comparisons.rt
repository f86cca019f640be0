//! Comparisons of extensions.
ghost use Rattle.std.specs.Prelude.{◌≡◌, ◌≤◌, IfOk, IfSome, IsOkUnless};
ghost use Rattle.pliron_mlir_rules.specs.MlirRules.{compare_narrow as compare_narrow_by, fitting_constant as fitting_constant_by};
ghost use Rattle.pliron_mlir_rules.specs.MlirRules.{narrow_atom as narrow_atom_by, narrow_comparison as narrow_comparison_by};
ghost use Rattle.pliron_mlir_rules.specs.MlirRules.{narrow_high as narrow_high_by, narrow_number as narrow_number_by};
ghost use Rattle.pliron_mlir_rules.specs.MlirRules.{narrow_predicate as narrow_predicate_by, of_width as of_width_by, unsigned_of as unsigned_by};

use crate::seen::{CastSource, known_bits, source_of};
use pliron_bits::{Cast, Predicate, size};
use pliron_core::AttrObj;
use pliron_dialect_mlir::{Comparison, counted_bits, number};
use pliron_laws::OptError;
use pliron_rewrite_rules::{Atom, Atoms, Operand, Term};
use std::alloc::Global;

// How the numbers compare that are read as unsigned.
fn unsigned_predicate(predicate: Predicate) -> Predicate
    ensures { result ≡ unsigned_by predicate }
{
    match predicate {
        Predicate::SignedLess => Predicate::UnsignedLess,
        Predicate::SignedLessEqual => Predicate::UnsignedLessEqual,
        Predicate::SignedGreater => Predicate::UnsignedGreater,
        Predicate::SignedGreaterEqual => Predicate::UnsignedGreaterEqual,
        _ => predicate,
    }
}

// How what is extended compares.
fn narrow_predicate(cast: Cast, predicate: Predicate) -> Predicate
    ensures { result ≡ narrow_predicate_by cast predicate }
{
    match cast {
        Cast::ZeroExtend => unsigned_predicate(predicate),
        Cast::SignExtend | Cast::Truncate => predicate,
    }
}

// The number of so many bits whose negative extension to more bits is this one.
fn narrow_high(narrow: u32, wide: u32, bits: u64) -> Option<u64>
    requires { (narrow ≤ 64) × (wide ≤ 64) }
    ensures { result ≡ narrow_high_by narrow wide bits }
{
    let bits = bits as u128;
    let least = size(wide).saturating_sub(size(narrow.saturating_sub(1)));
    if bits < least {
        return None;
    }
    Some(bits.saturating_sub(size(wide).saturating_sub(size(narrow))) as u64)
}

// The number of so many bits whose extension to more bits is this one.
fn narrow_number(cast: Cast, narrow: u32, wide: u32, bits: u64) -> Option<u64>
    requires { (narrow ≤ 64) × (wide ≤ 64) }
    ensures { result ≡ narrow_number_by cast narrow wide bits }
{
    match cast {
        Cast::ZeroExtend if (bits as u128) < size(narrow) => Some(bits),
        Cast::SignExtend if (bits as u128) < size(narrow.saturating_sub(1)) => Some(bits),
        Cast::SignExtend => narrow_high(narrow, wide, bits),
        _ => None,
    }
}

// The value, where it has this width.
fn of_width(width: u32, source: Option<CastSource>) -> Option<Atom>
    ensures { result ≡ of_width_by width source }
{
    match source {
        Some(source) if source.width == width => Some(Atom::Named(source.value)),
        _ => None,
    }
}

// The number whose extension this is, as one of the narrow width.
fn fitting_constant(cast: Cast, width: u32, to: u32, bits: Option<u64>) -> Option<Atom>
    requires narrow { width ≤ 65 }
    requires wide { IfSome bits (λ b. (1 ≤ to) × (to ≤ 65)) }
    ensures { result ≡ fitting_constant_by cast width to bits }
{
    let Some(bits) = bits else {
        return None;
    };
    match narrow_number(cast, counted_bits(width), counted_bits(to), bits) {
        Some(narrow) => Some(Atom::Constant(AttrObj::Int(number(width, narrow)))),
        None => None,
    }
}

// What the operand of the width `to` is the extension of.
fn narrow_atom(cast: Cast, width: u32, to: u32, operand: &Operand) -> Option<Atom>
    requires { width ≤ 65 }
    ensures { result ≡ narrow_atom_by cast width to operand.now }
{
    match of_width(width, source_of(cast, to, operand)) {
        Some(atom) => Some(atom),
        None => fitting_constant(cast, width, to, known_bits(to, operand)),
    }
}

// The comparison of what is extended.
fn narrow_comparison(
    alloc: Global,
    cast: Cast,
    comparison: Comparison,
    first: CastSource,
    second: Atom,
) -> Result<Term, OptError>
    ensures ok { IfOk result (λ term. term ≡ narrow_comparison_by cast comparison first second) }
    ensures memory { IsOkUnless result OptError.Memory }
{
    let narrow = Comparison {
        width: first.width,
        predicate: narrow_predicate(cast, comparison.predicate),
    };
    let head = narrow.head(alloc)?;
    let mut atoms = Vec::new(alloc);
    atoms.push(Atom::Named(first.value))?;
    atoms.push(second)?;
    Ok(Term::Make(head, Atoms::new(atoms)))
}

// `icmp p (ext a) (ext b)`, or a constant in the place of the latter, is `icmp p a b`, of zero extensions without signs.
pub(crate) fn compare_narrow(
    alloc: Global,
    cast: Cast,
    comparison: Option<Comparison>,
    a: &Operand,
    b: &Operand,
) -> Result<Option<Term>, OptError>
    ensures ok { IfOk result (λ term. term ≡ compare_narrow_by cast comparison a.now b.now) }
    ensures memory { IsOkUnless result OptError.Memory }
{
    let Some(comparison) = comparison else {
        return Ok(None);
    };
    let Some(first) = source_of(cast, comparison.width, a) else {
        return Ok(None);
    };
    match narrow_atom(cast, first.width, comparison.width, b) {
        Some(second) => Ok(Some(narrow_comparison(alloc, cast, comparison, first, second)?)),
        None => Ok(None),
    }
}
