//! What a function defines, and what each of it is called.
ghost use Rattle.std.specs.Prelude.{◌≡◌, ℕ, [], IfOk, IfErr, IfSome, IfNone, OnOk};
ghost use Rattle.std.specs.Option.{option_map};
ghost use Rattle.pliron_text_llvm_names.specs.Names.{key_of};
ghost use Rattle.pliron_text_llvm_names.specs.Names.NameKey.{Number};
ghost use Rattle.pliron_text_llvm_names.specs.Tables.{IsIndexOf};
ghost use Rattle.pliron_text_llvm_names.specs.Definitions.{defines_block, written_key, key_at, next_behind, keys_of, IsNotBelow, AreRisingNumbers, AreDistinct};
ghost use Rattle.pliron_text_llvm_names.specs.Naming.{IsNamed};
ghost use Rattle.pliron_text_llvm_names.specs.declared.definitions.NamingFault.TheVariants.{NoMemory};

use crate::names::{LocalName, NameFault, label_name, local_name};
use crate::table::LocalNameTable;
use pliron_text_llvm_syntax::ByteSpan;
use std::alloc::{AllocError, Global};

/// What is defined.
#[doc(hidden)]
#[derive(Clone, Copy, Debug, Drop, PartialEq, Eq)]
pub enum DefinitionKind {
    /// The parameter of this number.
    Argument(usize),
    /// The block that begins with the line of this number.
    Block(usize),
    /// What the line of this number gives.
    Result(usize),
}

/// A value or a block of a function.
#[doc(hidden)]
#[derive(Clone, Copy, Debug, Drop, PartialEq, Eq)]
pub struct LocalDefinition {
    pub what: DefinitionKind,
    /// Its name with the `%`, of a block its label with the `:`, where the text has one.
    pub name: Option<ByteSpan>,
}

/// Why definitions have no names.
#[doc(hidden)]
#[derive(Clone, Copy, Debug, Drop, PartialEq, Eq)]
pub enum NamingFault {
    /// The name of the definition with this number isn't read.
    Unread(usize, NameFault),
    /// The definition with this number has the name of one before it.
    Taken(usize),
    /// The definition with this number is called by a number below this one, which is next.
    Falls(usize, u32),
    /// The definition with this number has no name, and no number of 32 bits is left.
    Numberless(usize),
    NoMemory,
}

/// A failed allocation is reported as `NoMemory`.
impl From<AllocError> for NamingFault {
    ghost from_gives = { λ _ e. e ≡ NoMemory };

    fn from(_refused: AllocError) -> NamingFault {
        NamingFault::NoMemory
    }
}

impl LocalDefinition {
    /// Whether it is a block. Cost: constant.
    pub fn is_block(&self) -> bool
        ensures { result ≡ defines_block self.now }
    {
        matches!(self.what, DefinitionKind::Block(_))
    }
}

// The name that the text has for the definition.
fn written_name<'t>(
    text: &'t [u8],
    definition: &LocalDefinition,
) -> Result<Option<LocalName<'t>>, NameFault>
    ensures { IfOk result (λ name. option_map key_of name ≡ written_key text.now definition.now) }
{
    match definition.name {
        Some(span) if definition.is_block() => Ok(Some(label_name(text, span)?)),
        Some(span) => Ok(Some(local_name(text, span)?)),
        None => Ok(None),
    }
}

// What the definition of this number is called, where `next` is the next number.
fn name_of<'t>(
    text: &'t [u8],
    definition: &LocalDefinition,
    number: usize,
    next: u32,
) -> Result<LocalName<'t>, NamingFault>
    ensures key { IfOk result (λ name. key_of name ≡ key_at next (written_key text.now definition.now)) }
    ensures not_below { IfOk result (λ _. IsNotBelow next (written_key text.now definition.now)) }
{
    match written_name(text, definition) {
        Ok(Some(LocalName::Number(written))) if written < next => {
            Err(NamingFault::Falls(number, next))
        }
        Ok(Some(name)) => Ok(name),
        Ok(None) => Ok(LocalName::Number(next)),
        Err(fault) => Err(NamingFault::Unread(number, fault)),
    }
}

// The next number behind the name, if it has 32 bits at most.
fn next_behind(next: u32, name: LocalName<'_>) -> Option<u32>
    ensures some { IfSome result (λ behind. behind ≡ next_behind next (key_of name.entry)) }
    ensures none { IfNone result (key_of name.entry ≡ Number 4294967295) }
{
    match name {
        LocalName::Number(number) => number.checked_add(1),
        LocalName::Text(_) => Some(next),
    }
}

// The definition of this number gets its name, where `next` is the next number. Answers the one that is next then.
fn name_definition(
    text: &[u8],
    definition: &LocalDefinition,
    number: usize,
    next: u32,
    table: &mut LocalNameTable,
) -> Result<u32, NamingFault>
    ensures { IfOk result (λ behind. IsNamed text.now definition.now number next table.old table.new behind) }
{
    let name = name_of(text, definition, number, next)?;
    let Some(behind) = next_behind(next, name) else {
        return Err(NamingFault::Numberless(number));
    };
    match table.put(name, number)? {
        Some(_) => Err(NamingFault::Taken(number)),
        None => Ok(behind),
    }
}

// The definitions get their names, in their order.
#[tactic(auto, using(crate::proofs::NamingLemmas::naming_steps))]
fn name_all(
    text: &[u8],
    definitions: &[LocalDefinition],
    table: &mut LocalNameTable,
) -> Result<(), NamingFault>
    requires { IsIndexOf table.old [] }
    ensures index { OnOk result (IsIndexOf table.new (keys_of text.now definitions.now)) }
    ensures rising { OnOk result (AreRisingNumbers text.now 0 definitions.now) }
{
    let mut number = 0;
    let mut next = 0;
    for definition in definitions {
        next = name_definition(text, definition, number, next, table)?;
        number += 1;
    }
    Ok(())
}

/// What the definitions are called, in the order of the text: each by the name that the text has for it, and else by the
/// next number. The answer has the number of each by its name.
///
/// Errors: two have one name; a number is below the next one; a name isn't read; no number is left; allocation failure.
/// Cost: linear in the names, and a look-up for each.
#[doc(hidden)]
pub fn name_definitions(
    alloc: Global,
    text: &[u8],
    definitions: &[LocalDefinition],
) -> Result<LocalNameTable, NamingFault>
    ensures index { IfOk result (λ table. IsIndexOf table (keys_of text.now definitions.now)) }
    ensures distinct { IfOk result (λ _. AreDistinct (keys_of text.now definitions.now)) }
    ensures rising { IfOk result (λ _. AreRisingNumbers text.now 0 definitions.now) }
{
    let mut table = LocalNameTable::new(alloc);
    match name_all(text, definitions, &mut table) {
        Ok(()) => Ok(table),
        Err(fault) => Err(fault),
    }
}
