//! What a check of a call sees.

use pliron_laws::OptError;

/// What a check of a call sees.
#[derive(Clone, Copy, Debug, Drop, PartialEq, Eq)]
pub enum Observation {
    /// The call has its memory, and its answer is the wanted one; or a request beside it was refused.
    Answered,
    /// The call was refused, and what it leaves may be.
    Refused,
    /// What it answers or leaves isn't what it should.
    Wrong,
}

impl Observation {
    /// What is seen of a call that was refused, by whether what it leaves may be. Cost: constant.
    pub fn of_refusal(may_be: bool) -> Self {
        if may_be {
            Observation::Refused
        } else {
            Observation::Wrong
        }
    }

    /// What is seen of a call that has an answer, by whether that is right. Cost: constant.
    pub fn of_answer(is_right: bool) -> Self {
        if is_right {
            Observation::Answered
        } else {
            Observation::Wrong
        }
    }

    /// What is seen of a check that ended so: where its own requests were refused, it shows nothing. Cost:
    /// constant.
    pub fn of(found: Result<Observation, OptError>) -> Self {
        match found {
            Ok(seen) => seen,
            Err(OptError::Memory) => Observation::Answered,
            Err(_) => Observation::Wrong,
        }
    }
}
