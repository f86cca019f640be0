//! Casts of casts.
ghost use Rattle.std.specs.Prelude.{◌≡◌, IfOk, IsOkUnless};
ghost use Rattle.pliron_mlir_rules.specs.MlirRules.{cast_term as cast_term_by, join_casts as join_casts_by};
ghost use Rattle.pliron_mlir_rules.specs.MlirRules.{join_cast as join_cast_by, joined_cast as joined_cast_by};

use crate::seen::{CastSource, is_plain_cast, source_of};
use pliron_bits::{Cast, Flags};
use pliron_dialect_mlir::{Conversion, counted_bits};
use pliron_laws::OptError;
use pliron_rewrite_rules::{Atom, Atoms, Operand, Term};
use std::alloc::Global;

// The cast that two in a row are, from so many bits to so many, where it is one.
fn joined_cast(first: Cast, second: Cast, from: u32, to: u32) -> Option<Cast>
    ensures { result ≡ joined_cast_by first second from to }
{
    match (first, second) {
        (Cast::ZeroExtend, Cast::ZeroExtend | Cast::SignExtend) => Some(Cast::ZeroExtend),
        (Cast::SignExtend, Cast::SignExtend) => Some(Cast::SignExtend),
        (_, Cast::Truncate) if from < to => Some(first),
        (_, Cast::Truncate) => Some(Cast::Truncate),
        _ => None,
    }
}

// This cast of the source: itself, where it has the width.
fn cast_term(
    alloc: Global,
    cast: Option<Cast>,
    source: CastSource,
    to: u32,
) -> Result<Option<Term>, OptError>
    ensures ok { IfOk result (λ term. term ≡ cast_term_by cast source to) }
    ensures memory { IsOkUnless result OptError.Memory }
{
    let Some(cast) = cast else {
        return Ok(None);
    };
    if source.width == to {
        return Ok(Some(Term::Atomic(Atom::Named(source.value))));
    }
    let conversion = Conversion {
        width: source.width,
        to,
        flags: Flags::NONE,
    };
    if !is_plain_cast(cast, conversion) {
        return Ok(None);
    }
    let head = conversion.head(cast, alloc)?;
    let mut atoms = Vec::new(alloc);
    atoms.push(Atom::Named(source.value))?;
    Ok(Some(Term::Make(head, Atoms::new(atoms))))
}

// One cast, where the operand is made by the first one.
fn join_cast(
    alloc: Global,
    first: Cast,
    second: Cast,
    conversion: Conversion,
    a: &Operand,
) -> Result<Option<Term>, OptError>
    ensures ok { IfOk result (λ term. term ≡ join_cast_by first second conversion a.now) }
    ensures memory { IsOkUnless result OptError.Memory }
{
    let Some(source) = source_of(first, conversion.width, a) else {
        return Ok(None);
    };
    let from = counted_bits(source.width);
    let to = counted_bits(conversion.to);
    cast_term(
        alloc,
        joined_cast(first, second, from, to),
        source,
        conversion.to,
    )
}

// A cast of a cast is one cast.
pub(crate) fn join_casts(
    alloc: Global,
    second: Cast,
    conversion: Option<Conversion>,
    a: &Operand,
) -> Result<Option<Term>, OptError>
    ensures ok { IfOk result (λ term. term ≡ join_casts_by second conversion a.now) }
    ensures memory { IsOkUnless result OptError.Memory }
{
    let Some(conversion) = conversion else {
        return Ok(None);
    };
    if !is_plain_cast(second, conversion) {
        return Ok(None);
    }
    if let Some(term) = join_cast(alloc, Cast::ZeroExtend, second, conversion, a)? {
        return Ok(Some(term));
    }
    if let Some(term) = join_cast(alloc, Cast::SignExtend, second, conversion, a)? {
        return Ok(Some(term));
    }
    join_cast(alloc, Cast::Truncate, second, conversion, a)
}
