//! A module.
ghost use Rattle.std.specs.Prelude.{◌≡◌, [], length, map, IfOk, OnOk};
ghost use Rattle.std.specs.List.{All};
ghost use Rattle.pliron_text_llvm_syntax.specs.Parts.{bytes_of_parts, AreConsecutive, IsRawOrFunction};
ghost use Rattle.pliron_text_llvm_modules.specs.Modules.{module_part_of, IsReadPart};

use crate::function::{ModuleFunction, read_whole};
use crate::stop::LlvmModuleFault;
use pliron_text_llvm_syntax::{ByteSpan, FunctionText, ModulePart, split_text};
use std::alloc::Global;

/// A part of a module that was read.
#[doc(hidden)]
#[derive(Debug, Drop)]
pub enum ReadPart {
    /// Text before, between or behind functions.
    Raw(ByteSpan),
    /// A function, and what it becomes.
    Function(FunctionText, ModuleFunction),
}

// Reads the part.
fn read_part(alloc: Global, text: &[u8], part: ModulePart) -> Result<ReadPart, LlvmModuleFault>
    requires { IsRawOrFunction text.now part }
    ensures part { IfOk result (λ read. module_part_of read ≡ part) }
    ensures read { IfOk result (λ read. IsReadPart text.now read) }
{
    match part {
        ModulePart::Raw(span) => Ok(ReadPart::Raw(span)),
        ModulePart::Function(function) => match read_whole(alloc, text, &function) {
            Ok(read) => Ok(ReadPart::Function(function, read)),
            Err(fault) => Err(fault),
        },
    }
}

// Reads the parts, and adds them to none.
#[tactic(auto, using(crate::proofs::ModuleLemmas::parts_all))]
fn read_parts(
    alloc: Global,
    text: &[u8],
    parts: &[ModulePart],
    read: &mut Vec<ReadPart>,
) -> Result<(), LlvmModuleFault>
    requires functions { All (IsRawOrFunction text.now) parts.now }
    requires empty { read.old.items ≡ [] }
    ensures parts { OnOk result (map module_part_of read.new.items ≡ parts.now) }
    ensures read { OnOk result (All (IsReadPart text.now) read.new.items) }
{
    for part in parts {
        let reading = read_part(alloc, text, *part)?;
        read.push(reading)?;
    }
    Ok(())
}

/// Reads a module: its parts, which are the text. Text outside functions is kept as it is written, and so is a function
/// with something that isn't in the table; each other one is read, with what its edges pass.
///
/// Errors, with the place and what was expected there: a function isn't one of LLVM's; a token or a bracket is broken;
/// allocation failure. Cost: linear in the text, with a look-up for each name and a sort of the entries of each phi.
pub fn read_module(alloc: Global, text: &[u8]) -> Result<Vec<ReadPart>, LlvmModuleFault>
    ensures consecutive { IfOk result (λ read. AreConsecutive 0 (length text.now) (map module_part_of read.items)) }
    ensures text { IfOk result (λ read. bytes_of_parts text.now (map module_part_of read.items) ≡ text.now) }
    ensures read { IfOk result (λ read. All (IsReadPart text.now) read.items) }
{
    let parts = split_text(alloc, text)?;
    let mut read = Vec::new(alloc);
    match read_parts(alloc, text, &parts, &mut read) {
        Ok(()) => Ok(read),
        Err(fault) => Err(fault),
    }
}
