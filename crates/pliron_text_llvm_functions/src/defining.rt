//! What the lines of a body define.
ghost use Rattle.std.specs.Prelude.{◌≡◌, ◌<◌, ◌+◌, ◌++◌, length, IfOk, OnOk};
ghost use Rattle.std.specs.List.{All};
ghost use Rattle.pliron_text_llvm_functions.specs.Bodies.{block_begun, result_given, line_definitions, begins_behind, body_definitions, IsGivenName, HasGivenName};
ghost use Rattle.pliron_text_llvm_functions.specs.declared.defining.DefiningFault.TheVariants.{NoMemory};

use pliron_text_llvm_names::{DefinitionKind, LocalDefinition};
use pliron_text_llvm_reader::{BodyLine, Statement};
use pliron_text_llvm_syntax::ByteSpan;
use std::alloc::AllocFailed;

/// Why lines define nothing.
#[doc(hidden)]
#[derive(Clone, Copy, Debug, Drop, PartialEq, Eq)]
pub enum DefiningFault {
    /// This name is that of a statement that gives nothing.
    Nameless(ByteSpan),
    NoMemory,
}

/// A failed growth of a collection is reported as `NoMemory`, and the value that was not stored is dropped.
impl<T: Drop> From<AllocFailed<T>> for DefiningFault {
    ghost from_gives = { λ _ e. e ≡ NoMemory };

    fn from(_refused: AllocFailed<T>) -> DefiningFault {
        DefiningFault::NoMemory
    }
}

// Adds the block that begins with the line of this number, if one does.
fn push_block(
    begins: bool,
    number: usize,
    definitions: &mut Vec<LocalDefinition>,
) -> Result<(), DefiningFault>
    ensures { OnOk result (definitions.new.items ≡ definitions.old.items ++ block_begun begins number) }
{
    if begins {
        definitions.push(LocalDefinition {
            what: DefinitionKind::Block(number),
            name: None,
        })?;
    }
    Ok(())
}

// Adds what the statement gives that is the line of this number.
fn push_result(
    statement: &Statement,
    number: usize,
    definitions: &mut Vec<LocalDefinition>,
) -> Result<(), DefiningFault>
    ensures added { OnOk result
        (definitions.new.items ≡ definitions.old.items ++ result_given number statement.now) }
    ensures given { OnOk result (IsGivenName statement.now.gives statement.now.name) }
{
    match statement.name {
        name if statement.gives => {
            definitions.push(LocalDefinition {
                what: DefinitionKind::Result(number),
                name,
            })?;
            Ok(())
        }
        Some(name) => Err(DefiningFault::Nameless(name)),
        None => Ok(()),
    }
}

// Adds what the line of this number defines; a block begins with it or doesn't.
#[tactic(auto, using(crate::proofs::BodyLemmas::line_added))]
fn push_line(
    line: &BodyLine,
    begins: bool,
    number: usize,
    definitions: &mut Vec<LocalDefinition>,
) -> Result<(), DefiningFault>
    ensures added { OnOk result
        (definitions.new.items ≡ definitions.old.items ++ line_definitions begins number line.now) }
    ensures given { OnOk result (HasGivenName line.now) }
{
    match line {
        BodyLine::Label(span) => {
            definitions.push(LocalDefinition {
                what: DefinitionKind::Block(number),
                name: Some(*span),
            })?;
            Ok(())
        }
        BodyLine::Statement(statement) => {
            push_block(begins, number, definitions)?;
            push_result(&statement.statement, number, definitions)
        }
    }
}

// Whether a block begins behind the line.
fn begins_behind(line: &BodyLine) -> bool
    ensures { result ≡ begins_behind line.now }
{
    match line {
        BodyLine::Label(_) => false,
        BodyLine::Statement(statement) => statement.statement.row.is_terminator,
    }
}

/// Adds what the lines of a body define: blocks, each with its label or without a name where it begins behind a statement
/// that ends one, or with the first line; and values.
///
/// Errors: a statement that gives nothing has a name; allocation failure. Cost: linear in the lines.
#[doc(hidden)]
#[tactic(auto, using(crate::proofs::BodyLemmas::body_steps))]
pub fn push_body_definitions(
    lines: &[BodyLine],
    definitions: &mut Vec<LocalDefinition>,
) -> Result<(), DefiningFault>
    ensures added { OnOk result (definitions.new.items ≡ definitions.old.items ++ body_definitions lines.now) }
    ensures given { OnOk result (All HasGivenName lines.now) }
{
    let mut begins = true;
    let mut number = 0;
    for line in lines {
        push_line(line, begins, number, definitions)?;
        begins = begins_behind(line);
        number += 1;
    }
    Ok(())
}
