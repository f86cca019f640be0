//! Why a command ends without an answer.
use pliron_laws::OptError;
use thiserror::Error;

/// Why a command ends without an answer.
#[derive(Clone, Copy, Debug, Drop, PartialEq, Eq, Error)]
pub enum CommandFailure {
    #[error("unreadable text")]
    Text,
    #[error("refused: {0}")]
    Refused(OptError),
}
