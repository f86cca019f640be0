//! Which definition each use names.
ghost use Rattle.std.specs.Prelude.{◌≡◌, [], IfOk, OnOk};
ghost use Rattle.std.specs.Option.{option_copied};
ghost use Rattle.pliron_text_llvm_names.specs.Definitions.{keys_of};
ghost use Rattle.pliron_text_llvm_names.specs.Tables.{IsIndexOf};
ghost use Rattle.pliron_text_llvm_names.specs.Uses.{is_local_hole, fits_kind, IsTarget, AreTargets};
ghost use Rattle.pliron_text_llvm_names.specs.declared.uses.UseFault.TheVariants.{NoMemory};

use crate::definitions::LocalDefinition;
use crate::names::{NameFault, local_name};
use crate::table::LocalNameTable;
use pliron_text_llvm_syntax::{Hole, HoleKind};
use std::alloc::AllocFailed;

/// Why holes name nothing.
#[doc(hidden)]
#[derive(Clone, Copy, Debug, Drop, PartialEq, Eq)]
pub enum UseFault {
    /// The name in the hole of this number isn't read.
    Unread(usize, NameFault),
    /// Nothing that fits has the name in the hole of this number.
    Undefined(usize),
    NoMemory,
}

/// A failed growth of a collection is reported as `NoMemory`, and the value that was not stored is dropped.
impl<T: Drop> From<AllocFailed<T>> for UseFault {
    ghost from_gives = { λ _ e. e ≡ NoMemory };

    fn from(_refused: AllocFailed<T>) -> UseFault {
        UseFault::NoMemory
    }
}

// Whether a local name is in the hole.
fn is_local(text: &[u8], hole: &Hole) -> bool
    ensures { result ≡ is_local_hole text.now hole.now }
{
    match text.get(hole.span.start) {
        Some(first) => *first == b'%',
        None => false,
    }
}

// Whether a definition is there that fits.
fn fits_kind(kind: HoleKind, found: Option<&LocalDefinition>) -> bool
    ensures { result ≡ fits_kind kind (option_copied found.entry) }
{
    match (kind, found) {
        (HoleKind::Operand, Some(definition)) => !definition.is_block(),
        (HoleKind::Successor, Some(definition)) => definition.is_block(),
        (_, None) => false,
    }
}

// What the hole of this number names.
#[tactic(auto, using(crate::proofs::UseLemmas::named))]
fn target_of(
    text: &[u8],
    definitions: &[LocalDefinition],
    table: &LocalNameTable,
    hole: &Hole,
    number: usize,
) -> Result<Option<usize>, UseFault>
    requires { IsIndexOf table.now (keys_of text.now definitions.now) }
    ensures { IfOk result (λ target. IsTarget text.now definitions.now hole.now target) }
{
    if !is_local(text, hole) {
        return Ok(None);
    }
    let name = match local_name(text, hole.span) {
        Ok(name) => name,
        Err(fault) => return Err(UseFault::Unread(number, fault)),
    };
    match table.find(name) {
        Some(found) if fits_kind(hole.kind, definitions.get(found)) => Ok(Some(found)),
        _ => Err(UseFault::Undefined(number)),
    }
}

/// Adds to none what each hole names, in their order: the number of a definition where a local name is in it, and else
/// nothing. An operand names a value, and a successor a block.
///
/// Asks that the table has the definitions by what they are called. Errors: nothing that fits has the name; the name
/// isn't read; allocation failure. Cost: linear in the names, and a look-up for each.
#[doc(hidden)]
#[tactic(auto, using(crate::proofs::UseLemmas::targets_none, crate::proofs::UseLemmas::targets_more, crate::proofs::UseLemmas::targets_all))]
pub fn resolve_uses(
    text: &[u8],
    definitions: &[LocalDefinition],
    table: &LocalNameTable,
    holes: &[Hole],
    targets: &mut Vec<Option<usize>>,
) -> Result<(), UseFault>
    requires index { IsIndexOf table.now (keys_of text.now definitions.now) }
    requires empty { targets.old.items ≡ [] }
    ensures { OnOk result (AreTargets text.now definitions.now holes.now targets.new.items) }
{
    for hole in holes {
        let target = target_of(text, definitions, table, hole, targets.len())?;
        targets.push(target)?;
    }
    Ok(())
}
