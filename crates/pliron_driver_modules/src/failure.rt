//! With which status a program ends where a module isn't answered.
ghost use Rattle.std.specs.Prelude.{◌≤◌};

use pliron_driver::TextFailure;

/// The status that a program ends with: 1 where something was refused, 2 where the text can't be used. Cost: constant.
pub fn failure_status<F>(failure: &TextFailure<F>) -> u8
    ensures least { 1 ≤ result }
    ensures most { result ≤ 2 }
{
    match failure {
        TextFailure::Refused(_) => 1,
        TextFailure::Text(_) => 2,
    }
}
