//! The faults of graphs, optimisations and passes.
ghost use Rattle.std.specs.Prelude.{◌≡◌};
ghost use Rattle.pliron_laws.specs.declared.fault.OptError.TheVariants.{Memory};

use pliron_core::NoMemory;
use std::alloc::{AllocError, AllocFailed};
use thiserror::Error;

/// Why a call failed.
#[derive(Clone, Copy, Debug, Drop, PartialEq, Eq, Error)]
pub enum OptError {
    /// Allocation failure.
    #[error("want of memory")]
    Memory,
    /// An operation outside a region's unreachable blocks uses a value that is defined in them.
    #[error("a value of an unreachable block is used")]
    LiveUse,
    /// Verification failed before a pass.
    #[error("verification failed before the pass")]
    VerifyBefore,
    /// Verification failed after a pass.
    #[error("verification failed after the pass")]
    VerifyAfter,
    /// A caller's pass, analysis or dialect answered this code.
    #[error("the pass failed with code {0}")]
    Pass(u32),
}

/// A change of the tree that failed for lack of memory is reported as `Memory`.
impl From<NoMemory> for OptError {
    ghost from_gives = { λ _ e. e ≡ Memory };

    fn from(_refused: NoMemory) -> OptError {
        OptError::Memory
    }
}

/// A failed allocation is reported as `Memory`.
impl From<AllocError> for OptError {
    ghost from_gives = { λ _ e. e ≡ Memory };

    fn from(_refused: AllocError) -> OptError {
        OptError::Memory
    }
}

/// A failed growth of a collection is reported as `Memory`, and the value that was not stored is dropped.
impl<T: Drop> From<AllocFailed<T>> for OptError {
    ghost from_gives = { λ _ e. e ≡ Memory };

    fn from(_refused: AllocFailed<T>) -> OptError {
        OptError::Memory
    }
}
