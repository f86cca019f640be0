//! What stops reading.
ghost use Rattle.std.specs.Prelude.{◌≡◌};
ghost use Rattle.pliron_text_llvm_syntax.specs.declared.fault.LlvmFault.TheVariants.{NoMemory};

use std::alloc::{AllocError, AllocFailed};
use thiserror::Error;

/// What was expected where a text leaves the grammar.
#[doc(hidden)]
#[derive(Clone, Copy, Debug, Drop, PartialEq, Eq, Error)]
pub enum ExpectedSyntax {
    #[error("a word of LLVM IR")]
    Word,
    #[error("a string that ends")]
    Text,
    #[error("`(`")]
    OpenRound,
    #[error("`)`")]
    CloseRound,
    #[error("`]`")]
    CloseSquare,
    #[error("`}}`")]
    CloseBrace,
    #[error("`>`")]
    CloseAngle,
    #[error("a bracket that this one closes")]
    Opening,
    #[error("`{{` and the body of the function")]
    Body,
}

/// What stops reading.
#[derive(Clone, Copy, Debug, Drop, PartialEq, Eq)]
pub enum LlvmFault {
    /// At this byte this was expected.
    Expected(usize, ExpectedSyntax),
    NoMemory,
}

/// A failed allocation is reported as `NoMemory`.
impl From<AllocError> for LlvmFault {
    ghost from_gives = { λ _ e. e ≡ NoMemory };

    fn from(_refused: AllocError) -> LlvmFault {
        LlvmFault::NoMemory
    }
}

/// A failed growth of a collection is reported as `NoMemory`, and the value that was not stored is dropped.
impl<T: Drop> From<AllocFailed<T>> for LlvmFault {
    ghost from_gives = { λ _ e. e ≡ NoMemory };

    fn from(_refused: AllocFailed<T>) -> LlvmFault {
        LlvmFault::NoMemory
    }
}
