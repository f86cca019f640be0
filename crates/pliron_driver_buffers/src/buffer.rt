//! An answer in a buffer.
ghost use Rattle.std.specs.Prelude.{◌≡◌, IsOkAnd, IsErrOf};
ghost use Rattle.pliron_driver_buffers.specs.Fills.{Fills};
ghost use Rattle.pliron_driver_buffers.specs.Statuses.{status_of_failure};

use crate::status::{CallFailure, Status};

/// Writes the answer to the start of the buffer, if it fits, and its length to `needed`; for a failure it writes 0 to
/// `needed`, and nothing to the buffer. Cost: linear in the answer.
pub fn fill(answer: Result<Vec<u8>, CallFailure>, output: &mut [u8], needed: &mut usize) -> Status
    ensures { Fills (λ bytes. IsOkAnd answer (λ text. bytes ≡ text.items)) (λ failure. IsErrOf answer failure)
        output.old output.new needed.new result }
{
    match answer {
        Ok(text) => put(&text, output, needed),
        Err(failure) => put_nothing(failure, needed),
    }
}

/// Reports that there is no answer. Cost: constant.
pub fn put_nothing(failure: CallFailure, needed: &mut usize) -> Status
    ensures length { needed.new ≡ 0 }
    ensures status { result ≡ status_of_failure failure }
{
    *needed = 0;
    failure.status()
}

/// Writes the answer to the start of the buffer, if it fits, and its length to `needed`. Cost: linear in the answer.
pub fn put(answer: &[u8], output: &mut [u8], needed: &mut usize) -> Status
    ensures { Fills (λ bytes. bytes ≡ answer.now) (λ failure. ⊥) output.old output.new needed.new result }
{
    *needed = answer.len();
    if answer.len() > output.len() {
        return Status::TooSmall;
    }
    output[..answer.len()].copy_from_slice(answer);
    Status::Answered
}
