//! What stops reading a module.
ghost use Rattle.std.specs.Prelude.{◌≡◌};
ghost use Rattle.pliron_text_llvm_syntax.specs.declared.fault.LlvmFault.TheVariants.{NoMemory};
ghost use Rattle.pliron_text_llvm_modules.specs.declared.stop.LlvmModuleFault.TheVariants.{Broken};

use pliron_text_llvm_edges::{EdgeFault, EdgeRefusal, KeptForEdges};
use pliron_text_llvm_functions::{FunctionFault, KeptFor, Refusal};
use pliron_text_llvm_syntax::LlvmFault;
use std::alloc::AllocFailed;
use thiserror::Error;

/// Why a module is refused at a byte: what was expected there.
#[doc(hidden)]
#[derive(Clone, Copy, Debug, Drop, PartialEq, Eq, Error)]
pub enum ModuleRefusal {
    #[error("{0}")]
    Function(Refusal),
    #[error("{0}")]
    Edges(EdgeRefusal),
}

/// Why a function of a module is kept as it is written.
#[doc(hidden)]
#[derive(Clone, Copy, Debug, Drop, PartialEq, Eq, Error)]
pub enum KeptFunction {
    #[error("{0}")]
    Function(KeptFor),
    #[error("{0}")]
    Edges(KeptForEdges),
    #[error("a byte that stands for a hole in a form")]
    Mark,
}

/// Why a module isn't read.
#[doc(hidden)]
#[derive(Clone, Copy, Debug, Drop, PartialEq, Eq)]
pub enum LlvmModuleFault {
    /// At this byte this was expected.
    Refused(usize, ModuleRefusal),
    /// The text is broken, or memory lacks.
    Broken(LlvmFault),
}

/// A fault of the text is reported as such.
impl From<LlvmFault> for LlvmModuleFault {
    ghost from_gives = { λ fault e. e ≡ Broken fault };

    fn from(fault: LlvmFault) -> LlvmModuleFault {
        LlvmModuleFault::Broken(fault)
    }
}

/// A failed growth of a collection is reported as `NoMemory`, and the value that was not stored is dropped.
impl<T: Drop> From<AllocFailed<T>> for LlvmModuleFault {
    ghost from_gives = { λ _ e. e ≡ Broken NoMemory };

    fn from(_refused: AllocFailed<T>) -> LlvmModuleFault {
        LlvmModuleFault::Broken(LlvmFault::NoMemory)
    }
}

/// A module with such a function isn't read. Cost: constant.
pub fn fault_of_function(fault: FunctionFault) -> LlvmModuleFault {
    match fault {
        FunctionFault::Refused(place, refusal) => {
            LlvmModuleFault::Refused(place, ModuleRefusal::Function(refusal))
        }
        FunctionFault::Broken(fault) => LlvmModuleFault::Broken(fault),
    }
}

/// A module with a function of such edges isn't read. Cost: constant.
pub fn fault_of_edges(fault: EdgeFault) -> LlvmModuleFault {
    match fault {
        EdgeFault::Refused(place, refusal) => {
            LlvmModuleFault::Refused(place, ModuleRefusal::Edges(refusal))
        }
        EdgeFault::NoMemory => LlvmModuleFault::Broken(LlvmFault::NoMemory),
    }
}
