//! Why a function isn't printed.
ghost use Rattle.std.specs.Prelude.{◌≡◌};
ghost use Rattle.pliron_text_llvm_printer.specs.declared.stop.PrintStop.TheVariants.{NoMemory};

use std::alloc::{AllocError, AllocFailed};

/// Why a function isn't printed.
#[derive(Clone, Copy, Debug, Drop, PartialEq, Eq)]
pub enum PrintStop {
    /// It has something for which no text is known.
    Textless,
    NoMemory,
}

/// A failed allocation is reported as `NoMemory`.
impl From<AllocError> for PrintStop {
    ghost from_gives = { λ _ e. e ≡ NoMemory };

    fn from(_refused: AllocError) -> PrintStop {
        PrintStop::NoMemory
    }
}

/// A failed growth of a collection is reported as `NoMemory`, and the value that was not stored is dropped.
impl<T: Drop> From<AllocFailed<T>> for PrintStop {
    ghost from_gives = { λ _ e. e ≡ NoMemory };

    fn from(_refused: AllocFailed<T>) -> PrintStop {
        PrintStop::NoMemory
    }
}
