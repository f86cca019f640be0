//! Functions of a module.
ghost use Rattle.std.specs.Prelude.{◌≡◌, ◌≤◌, false, length, IfOk};
ghost use Rattle.std.specs.List.{list_any};
ghost use Rattle.pliron_text_llvm_syntax.specs.Forms.{is_hole_byte};
ghost use Rattle.pliron_text_llvm_syntax.specs.Functions.{IsFunctionAt};
ghost use Rattle.pliron_text_llvm_syntax.specs.Tokens.{bytes_of_span};
ghost use Rattle.pliron_text_llvm_functions.specs.Functions.{IsFunctionReading};
ghost use Rattle.pliron_text_llvm_modules.specs.Modules.{IsReadingOf};

use crate::stop::{KeptFunction, LlvmModuleFault, fault_of_edges, fault_of_function};
use pliron_text_llvm_edges::{EdgeForm, FunctionEdges, read_edges};
use pliron_text_llvm_functions::{FunctionForm, FunctionReading, read_function};
use pliron_text_llvm_syntax::{FunctionText, bytes_of, is_mark};
use std::alloc::Global;

/// What is read of a function.
#[doc(hidden)]
#[derive(Debug, Drop)]
pub struct ReadFunction {
    /// Its body, what it defines, and what its operands and successors name.
    pub reading: FunctionReading,
    /// The edges between its blocks, and what they pass.
    pub edges: FunctionEdges,
}

/// What a function of a module becomes.
#[doc(hidden)]
#[derive(Debug, Drop)]
pub enum ModuleFunction {
    Read(ReadFunction),
    /// For what is at this byte it is kept as it is written.
    Kept(usize, KeptFunction),
}

// Whether a byte stands for a hole.
fn has_mark(bytes: &[u8]) -> bool
    ensures { result ≡ list_any is_hole_byte bytes.now }
{
    bytes.iter().any(|byte| is_mark(*byte))
}

// Reads the edges of the function.
fn with_edges(
    alloc: Global,
    text: &[u8],
    function: &FunctionText,
    reading: FunctionReading,
) -> Result<ModuleFunction, LlvmModuleFault>
    requires marks { list_any is_hole_byte (bytes_of_span text.now function.now.span) ≡ false }
    requires reading { IsFunctionReading text.now function.now reading }
    ensures { IfOk result (λ read. IsReadingOf text.now function.now read) }
{
    match read_edges(alloc, text, &reading) {
        Ok(EdgeForm::Read(edges)) => Ok(ModuleFunction::Read(ReadFunction { reading, edges })),
        Ok(EdgeForm::Kept(place, reason)) => {
            Ok(ModuleFunction::Kept(place, KeptFunction::Edges(reason)))
        }
        Err(fault) => Err(fault_of_edges(fault)),
    }
}

/// Reads a function of a module, or keeps it as it is written where something of it isn't in the table, or a byte of it
/// is one that stands for a hole in a form.
///
/// Asks that it is a function of the text. Errors, with the place and what was expected there: it isn't one of LLVM's; a
/// token or a bracket is broken; allocation failure. Cost: that of reading it and its edges.
pub fn read_whole(
    alloc: Global,
    text: &[u8],
    function: &FunctionText,
) -> Result<ModuleFunction, LlvmModuleFault>
    requires { IsFunctionAt text.now function.now.span.start function.now }
    ensures { IfOk result (λ read. IsReadingOf text.now function.now read) }
{
    if has_mark(bytes_of(text, function.span)) {
        return Ok(ModuleFunction::Kept(function.span.start, KeptFunction::Mark));
    }
    match read_function(alloc, text, function) {
        Ok(FunctionForm::Read(reading)) => with_edges(alloc, text, function, reading),
        Ok(FunctionForm::Kept(place, reason)) => {
            Ok(ModuleFunction::Kept(place, KeptFunction::Function(reason)))
        }
        Err(fault) => Err(fault_of_function(fault)),
    }
}
