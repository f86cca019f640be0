//! What calls answer, and why no answer is known.
ghost use Rattle.std.specs.Prelude.{◌≡◌, ◌≢◌};
ghost use Rattle.pliron_driver_buffers.specs.declared.status.CallFailure.TheVariants.{Memory as ByMemory};

use pliron_laws::OptError;
use std::alloc::AllocError;
use thiserror::Error;

/// Why no answer is known.
#[derive(Clone, Copy, Debug, Drop, PartialEq, Eq, Error)]
pub enum CallFailure {
    /// The list isn't one of names of passes.
    #[error("words that ask for nothing")]
    Arguments,
    /// The text is outside the notation, or longer than texts may be.
    #[error("unreadable text")]
    Text,
    /// The passes gave up.
    #[error("refused")]
    Refused,
    /// Memory that was asked for was refused.
    #[error("want of memory")]
    Memory,
}

impl From<AllocError> for CallFailure {
    ghost from_gives = { λ _ failure. failure ≡ ByMemory };

    fn from(_refused: AllocError) -> CallFailure {
        CallFailure::Memory
    }
}

/// What a call answers.
#[derive(Clone, Copy, Debug, PartialEq, Eq)]
pub enum Status {
    /// The answer is in the buffer.
    Answered,
    /// The passes gave up.
    Refused,
    /// The text is outside the notation, or longer than texts may be.
    Text,
    /// The list isn't one of names of passes.
    Arguments,
    /// The answer is longer than the buffer.
    TooSmall,
    /// Memory that was asked for was refused.
    Memory,
}

impl CallFailure {
    ghost use Rattle.pliron_driver_buffers.specs.Statuses.{failure_of, status_of_failure};

    /// The failure of a call that gave up so. Cost: constant.
    pub fn of(error: OptError) -> Self
        ensures value { result ≡ failure_of error }
        ensures later { result ≢ CallFailure.Arguments }
    {
        match error {
            OptError::Memory => CallFailure::Memory,
            OptError::LiveUse
            | OptError::VerifyBefore
            | OptError::VerifyAfter
            | OptError::Pass(_) => CallFailure::Refused,
        }
    }

    /// The status that reports it. Cost: constant.
    pub fn status(self) -> Status
        ensures { result ≡ status_of_failure self }
    {
        match self {
            CallFailure::Arguments => Status::Arguments,
            CallFailure::Text => Status::Text,
            CallFailure::Refused => Status::Refused,
            CallFailure::Memory => Status::Memory,
        }
    }
}

impl Status {
    ghost use Rattle.pliron_driver_buffers.specs.Statuses.{number_of_status};

    /// The number by which other languages know it. Cost: constant.
    pub fn number(self) -> u32
        ensures { result ≡ number_of_status self }
    {
        match self {
            Status::Answered => 0,
            Status::Refused => 1,
            Status::Text => 2,
            Status::Arguments => 3,
            Status::TooSmall => 4,
            Status::Memory => 5,
        }
    }
}
