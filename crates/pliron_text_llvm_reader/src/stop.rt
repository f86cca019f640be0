//! Why a statement isn't read.
ghost use Rattle.std.specs.Prelude.{◌≡◌, true, OnOk, IfErr};
ghost use Rattle.pliron_text_llvm_syntax.specs.declared.fault.LlvmFault.TheVariants.{NoMemory};
ghost use Rattle.pliron_text_llvm_reader.specs.declared.stop.StatementStop.TheVariants.{Broken};
ghost use Rattle.pliron_text_llvm_reader.specs.Stops.{IsUnread};

use pliron_text_llvm_syntax::LlvmFault;
use std::alloc::{AllocError, AllocFailed};
use thiserror::Error;

/// Why a statement, and so its function, is kept as it is written.
#[doc(hidden)]
#[derive(Clone, Copy, Debug, Drop, PartialEq, Eq, Error)]
pub enum KeptReason {
    #[error("an unknown word")]
    Opcode,
    #[error("no type")]
    Type,
    #[error("no value")]
    Value,
    #[error("no comma")]
    Comma,
    #[error("no label")]
    Label,
    #[error("no arguments of a call")]
    Arguments,
    #[error("no `to`")]
    To,
    #[error("no `unwind`")]
    Unwind,
    #[error("no bracket with labels")]
    Labels,
    #[error("no entry of a phi")]
    Entry,
    #[error("a value where none is read")]
    Local,
    #[error("something behind the statement")]
    Rest,
    #[error("funclets")]
    Funclet,
}

/// What stops reading a statement.
#[doc(hidden)]
#[derive(Clone, Copy, Debug, Drop, PartialEq, Eq)]
pub enum StatementStop {
    /// The statement isn't in the table.
    Kept(KeptReason),
    /// The text is broken, or memory lacks.
    Broken(LlvmFault),
}

/// A fault of the text is reported as such.
impl From<LlvmFault> for StatementStop {
    ghost from_gives = { λ fault e. e ≡ Broken fault };

    fn from(fault: LlvmFault) -> StatementStop {
        StatementStop::Broken(fault)
    }
}

/// A failed allocation is reported as `NoMemory`.
impl From<AllocError> for StatementStop {
    ghost from_gives = { λ _ e. e ≡ Broken NoMemory };

    fn from(_refused: AllocError) -> StatementStop {
        StatementStop::Broken(LlvmFault::NoMemory)
    }
}

/// A failed growth of a collection is reported as `NoMemory`, and the value that was not stored is dropped.
impl<T: Drop> From<AllocFailed<T>> for StatementStop {
    ghost from_gives = { λ _ e. e ≡ Broken NoMemory };

    fn from(_refused: AllocFailed<T>) -> StatementStop {
        StatementStop::Broken(LlvmFault::NoMemory)
    }
}

/// Goes on where it was taken. Errors: this reason, where it wasn't. Cost: constant.
#[doc(hidden)]
pub fn unless(is_taken: bool, reason: KeptReason) -> Result<(), StatementStop>
    ensures taken { OnOk result (is_taken ≡ true) }
    ensures stop { IfErr result (λ stop. IsUnread stop) }
{
    if is_taken {
        Ok(())
    } else {
        Err(StatementStop::Kept(reason))
    }
}
