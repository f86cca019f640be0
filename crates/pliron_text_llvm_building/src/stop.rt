//! What stops building a function.
ghost use Rattle.std.specs.Prelude.{◌≡◌};
ghost use Rattle.pliron_text_llvm_building.specs.Stops.{stop_of_plan};
ghost use Rattle.pliron_text_llvm_building.specs.declared.stop.BuildStop.TheVariants.{NoMemory};

use pliron_core::NoMemory as FullContext;
use pliron_text_llvm_plans::{KeptForPlan, PlanStop};
use pliron_text_llvm_syntax::LlvmFault;
use std::alloc::{AllocError, AllocFailed};
use thiserror::Error;

/// Why a function is kept as it is written.
#[doc(hidden)]
#[derive(Clone, Copy, Debug, Drop, PartialEq, Eq, Error)]
pub enum KeptForBuilding {
    #[error("{0}")]
    Plan(KeptForPlan),
    #[error("a value that no operation gives")]
    Value,
    #[error("a block that isn't made")]
    Block,
    #[error("what no tree of the dialect has")]
    Unfit,
}

/// What stops building a function.
#[doc(hidden)]
#[derive(Clone, Copy, Debug, Drop, PartialEq, Eq)]
pub enum BuildStop {
    /// For what is at this byte the function is kept as it is written.
    Keep(usize, KeptForBuilding),
    NoMemory,
}

/// A value that no operation gives. Cost: constant.
pub fn no_value(place: usize) -> BuildStop {
    BuildStop::Keep(place, KeptForBuilding::Value)
}

/// A block that isn't made. Cost: constant.
pub fn no_block(place: usize) -> BuildStop {
    BuildStop::Keep(place, KeptForBuilding::Block)
}

/// A failed allocation is reported as `NoMemory`.
impl From<AllocError> for BuildStop {
    ghost from_gives = { λ _ e. e ≡ NoMemory };

    fn from(_refused: AllocError) -> BuildStop {
        BuildStop::NoMemory
    }
}

/// A failed growth of a collection is reported as `NoMemory`, and the value that was not stored is dropped.
impl<T: Drop> From<AllocFailed<T>> for BuildStop {
    ghost from_gives = { λ _ e. e ≡ NoMemory };

    fn from(_refused: AllocFailed<T>) -> BuildStop {
        BuildStop::NoMemory
    }
}

/// A context that has no room is reported as `NoMemory`.
impl From<FullContext> for BuildStop {
    ghost from_gives = { λ _ e. e ≡ NoMemory };

    fn from(_refused: FullContext) -> BuildStop {
        BuildStop::NoMemory
    }
}

/// A head that isn't made for want of memory is reported as `NoMemory`.
impl From<LlvmFault> for BuildStop {
    ghost from_gives = { λ _ e. e ≡ NoMemory };

    fn from(_fault: LlvmFault) -> BuildStop {
        BuildStop::NoMemory
    }
}

/// What stops a plan stops building by it.
impl From<PlanStop> for BuildStop {
    ghost from_gives = { λ stop e. e ≡ stop_of_plan stop };

    fn from(stop: PlanStop) -> BuildStop {
        match stop {
            PlanStop::Keep(place, reason) => BuildStop::Keep(place, KeptForBuilding::Plan(reason)),
            PlanStop::NoMemory => BuildStop::NoMemory,
        }
    }
}
