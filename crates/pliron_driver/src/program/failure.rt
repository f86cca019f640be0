//! Why a program ends without an answer.
ghost use Rattle.std.specs.Prelude.{◌≡◌};
ghost use Rattle.pliron_driver.specs.Ending.{exit_status};

use pliron_laws::OptError;
use std::alloc::AllocError;
use std::io::Write;
use thiserror::Error;

/// Why the program ends without an answer.
#[derive(Clone, Copy, Debug, Drop, PartialEq, Eq, Error)]
pub enum Failure {
    #[error("words that ask for nothing")]
    Arguments,
    #[error("cannot read standard input")]
    Reading,
    #[error("unreadable text")]
    Text,
    #[error("refused: {0}")]
    Refused(OptError),
    #[error("cannot write standard output")]
    Writing,
}

impl From<OptError> for Failure {
    fn from(error: OptError) -> Self {
        Failure::Refused(error)
    }
}

impl From<AllocError> for Failure {
    fn from(_: AllocError) -> Self {
        Failure::Refused(OptError::Memory)
    }
}

impl Failure {
    /// Writes a line that says why, and answers the status; of words that ask for nothing it says how
    /// `program` is used. A failed write is ignored. Cost: writing the line.
    pub fn report<E: Write>(self, program: &str, errors: &mut E) -> u8
        ensures { result ≡ exit_status self }
    {
        let _ = match self {
            Failure::Arguments => writeln!(errors, "usage: {program} LIST, or {program} graph"),
            _ => writeln!(errors, "{self}"),
        };
        match self {
            Failure::Refused(_) => 1,
            _ => 2,
        }
    }
}
