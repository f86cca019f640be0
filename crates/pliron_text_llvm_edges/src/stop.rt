//! What stops reading the edges of a function.
ghost use Rattle.std.specs.Prelude.{◌≡◌};
ghost use Rattle.pliron_text_llvm_edges.specs.declared.stop.EdgeFault.TheVariants.{Refused, NoMemory};
ghost use Rattle.pliron_text_llvm_edges.specs.declared.stop.EdgeStop.TheVariants.{Fault};

use std::alloc::{AllocError, AllocFailed};
use thiserror::Error;

/// Why a function is refused at a byte: what was expected there.
#[doc(hidden)]
#[derive(Clone, Copy, Debug, Drop, PartialEq, Eq, Error)]
pub enum EdgeRefusal {
    #[error("no edge to the first block")]
    FirstBlock,
    #[error("phis only at the beginning of a block")]
    PhiBehind,
    #[error("a value for each edge to this block")]
    EachEdge,
    #[error("one value for each block before")]
    OneValue,
}

/// Why a function is kept as it is written.
#[doc(hidden)]
#[derive(Clone, Copy, Debug, Drop, PartialEq, Eq, Error)]
pub enum KeptForEdges {
    #[error("a successor that is no block")]
    Successor,
    #[error("a phi that is no list of values and blocks")]
    Entries,
    #[error("two texts of a constant for one block")]
    TwoTexts,
}

/// Why the edges of a function aren't read, and it isn't kept either.
#[doc(hidden)]
#[derive(Clone, Copy, Debug, Drop, PartialEq, Eq)]
pub enum EdgeFault {
    /// At this byte this was expected.
    Refused(usize, EdgeRefusal),
    NoMemory,
}

/// What stops reading the edges of a function.
#[doc(hidden)]
#[derive(Clone, Copy, Debug, Drop, PartialEq, Eq)]
pub enum EdgeStop {
    /// For what is at this byte the function is kept as it is written.
    Keep(usize, KeptForEdges),
    Fault(EdgeFault),
}

/// A failed allocation is reported as `NoMemory`.
impl From<AllocError> for EdgeStop {
    ghost from_gives = { λ _ e. e ≡ Fault NoMemory };

    fn from(_refused: AllocError) -> EdgeStop {
        EdgeStop::Fault(EdgeFault::NoMemory)
    }
}

/// A failed growth of a collection is reported as `NoMemory`, and the value that was not stored is dropped.
impl<T: Drop> From<AllocFailed<T>> for EdgeStop {
    ghost from_gives = { λ _ e. e ≡ Fault NoMemory };

    fn from(_refused: AllocFailed<T>) -> EdgeStop {
        EdgeStop::Fault(EdgeFault::NoMemory)
    }
}

/// The function is refused at this byte, where this was expected. Cost: constant.
pub fn refusal_at(place: usize, refusal: EdgeRefusal) -> EdgeStop
    ensures { result ≡ Fault (Refused place refusal) }
{
    EdgeStop::Fault(EdgeFault::Refused(place, refusal))
}
