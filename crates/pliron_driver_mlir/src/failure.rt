//! Why a module isn't answered.
use crate::other_form::other_form;
use pliron_driver::TextFailure;
use pliron_driver_modules::ModuleSource;
use pliron_laws::OptError;
use pliron_text_mlir_reader::{Expectation, Fault, position_of};
use std::alloc::{AllocError, Global};

/// Where a text leaves the generic form, and what was expected there.
#[derive(Clone, Copy, Debug, Drop, PartialEq, Eq)]
pub struct ModuleFault {
    /// A byte of the text.
    pub place: usize,
    pub expected: Expectation,
}

/// Why a module isn't answered.
pub type ModuleFailure = TextFailure<ModuleFault>;

/// Why a module isn't answered whose text has this fault. Cost: constant.
pub fn failure_of(fault: Fault) -> ModuleFailure {
    match fault {
        Fault::Expected(place, expected) => TextFailure::Text(ModuleFault { place, expected }),
        Fault::KeptAsText => TextFailure::Text(ModuleFault {
            place: 0,
            expected: Expectation::FewerRegions,
        }),
        Fault::NoMemory => TextFailure::Refused(OptError::Memory),
    }
}

/// A line that says why the text isn't answered; of LLVM IR, bitcode and bytecode, what makes the generic form of
/// it. Errors: allocation failure. Cost: linear in the text before the place.
pub(crate) fn failure_message(
    alloc: Global,
    failure: ModuleFailure,
    source: &ModuleSource,
) -> Result<String, AllocError> {
    let (name, text) = (source.name, source.text);
    match failure {
        TextFailure::Text(fault) => match other_form(text) {
            Some(hint) => format!(in alloc; "{name}: error: {hint}\n"),
            None => {
                let position = position_of(text, fault.place);
                let (line, column, expected) = (position.line, position.column, fault.expected);
                format!(in alloc; "{name}:{line}:{column}: error: expected {expected}\n")
            }
        },
        TextFailure::Refused(error) => format!(in alloc; "error: refused: {error}\n"),
    }
}
