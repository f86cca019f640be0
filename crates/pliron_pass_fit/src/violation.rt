//! What keeps an operation from being fit to run.
ghost use Rattle.std.specs.Prelude.{◌≡◌};
ghost use Rattle.pliron_pass_fit.specs.declared.violation.CheckStop.TheVariants.{Fault};

use pliron_core::{Operation, Ptr, Region};
use pliron_laws::OptError;
use thiserror::Error;

/// One thing that is wrong with an operation that is to run, with its place.
#[derive(Clone, Copy, Debug, Drop, PartialEq, Eq, Error)]
pub enum Violation {
    /// Runs may not begin at an operation with this head.
    #[error("runs may not begin at the operation")]
    NotRoot,
    /// The root has successors.
    #[error("the root has successors")]
    HasSuccessors,
    /// The dialect has no operation with this head and these counts.
    #[error("the dialect does not admit operation {}", .0.key())]
    NotAdmitted(Ptr<Operation>),
    /// An edge inside the root, or to a block inside it, of an operation that does not end its block, or
    /// leads to another region.
    #[error("an edge of operation {} does not end its block, or leads to another region", .0.key())]
    EdgeNotLast(Ptr<Operation>),
    /// The operand at this index is defined outside the root.
    #[error("operand {} of operation {} is made outside the root", .1, .0.key())]
    ForeignValue(Ptr<Operation>, usize),
    /// A region in which definitions need not dominate uses.
    #[error("region {} has no dominance", .0.key())]
    NoDominance(Ptr<Region>),
    /// The edge at this index forwards another number of values than its target has arguments.
    #[error("edge {} of operation {} forwards another number of values than its target takes", .1, .0.key())]
    UnequalEdge(Ptr<Operation>, usize),
    /// A terminator that is not the last of its block.
    #[error("terminator {} is not the last of its block", .0.key())]
    TerminatorNotLast(Ptr<Operation>),
    /// The result at this index, of an operation with successors, is used.
    #[error("result {} of operation {}, which has successors, is used", .1, .0.key())]
    ResultUsed(Ptr<Operation>, usize),
    /// The operand at this index, of an operation outside the root, is defined inside it.
    #[error("operand {} of operation {}, which stands outside the root, is made inside it", .1, .0.key())]
    UsedOutside(Ptr<Operation>, usize),
    /// The definition of the operand at this index does not dominate the operation.
    #[error("the definition of operand {} does not dominate operation {}", .1, .0.key())]
    NotDominated(Ptr<Operation>, usize),
}

// Why a check ended early.
#[derive(Drop)]
pub(crate) enum CheckStop {
    Found(Violation),
    Fault(OptError),
}

impl From<OptError> for CheckStop {
    ghost from_gives = { λ e s. s ≡ Fault e };

    fn from(fault: OptError) -> CheckStop {
        CheckStop::Fault(fault)
    }
}
