//! Reading all of an input and writing all of an answer.
ghost use Rattle.std.specs.Prelude.{◌≡◌, ◌≤◌, length, IfOk, OnOk, OnErr, IfErr};
ghost use Rattle.std.specs.Io.KnownBytes.{Appends, Consumes};
ghost use Rattle.pliron_driver.specs.Ending.{IsRestOfInput, WritesPart};

use super::failure::Failure;
use std::alloc::Global;
use std::io::{self, ErrorKind, Read, Write};

/// The most bytes of a text.
pub const MAX_TEXT: usize = 1_048_576;

/// The input, of which no more is read than one byte past the longest text. Errors: a read that fails, or
/// allocation failure. Cost: linear in the input, up to the longest text.
pub fn read_input<R: Read>(alloc: Global, input: &mut R) -> Result<Vec<u8>, Failure>
    ensures read { IfOk result (λ text. Consumes (R.remaining input.old) (R.remaining input.new) text.items) }
    ensures few { IfOk result (λ text. length text.items ≤ 1048577) }
    ensures whole { IfOk result (λ text. length text.items ≤ 1048576 → IsRestOfInput (R.remaining input.old)
        text.items) }
{
    let mut text = Vec::new(alloc);
    let mut buffer = [0u8; 4096];
    // Each turn that doesn't end the loop reads a byte at least, or was interrupted.
    for _ in 0..u64::MAX {
        let room = (MAX_TEXT + 1).saturating_sub(text.len()).min(buffer.len());
        match input.read(&mut buffer[..room]) {
            Ok(0) => return Ok(text),
            Ok(count) => text.extend_from_slice(&buffer[..count])?,
            Err(error) => {
                if error.kind() != ErrorKind::Interrupted {
                    return Err(Failure::Reading);
                }
            }
        }
    }
    Err(Failure::Reading)
}

/// Writes the bytes, and flushes. Errors: those of the writer, after a first part of the bytes. Cost: linear in the bytes.
pub fn write_bytes<W: Write>(bytes: &[u8], output: &mut W) -> io::Result<()>
    ensures whole { OnOk result (Appends (W.contents output.old) (W.contents output.new) bytes.now) }
    ensures part { OnErr result (WritesPart (W.contents output.old) (W.contents output.new) bytes.now) }
{
    let mut rest = bytes;
    // Each turn that doesn't end the loop writes a byte at least, or was interrupted.
    for _ in 0..u64::MAX {
        if rest.is_empty() {
            output.flush()?;
            return Ok(());
        }
        match output.write(rest) {
            Ok(0) => return Err(ErrorKind::WriteZero.into()),
            Ok(count) => rest = &rest[count..],
            Err(error) => {
                if error.kind() != ErrorKind::Interrupted {
                    return Err(error);
                }
            }
        }
    }
    Err(ErrorKind::WriteZero.into())
}

/// Writes the answer. Errors: a write that fails, after a first part of the answer. Cost: linear in the
/// answer.
pub fn write_answer<W: Write>(answer: &[u8], output: &mut W) -> Result<(), Failure>
    ensures whole { OnOk result (Appends (W.contents output.old) (W.contents output.new) answer.now) }
    ensures part { OnErr result (WritesPart (W.contents output.old) (W.contents output.new) answer.now) }
    ensures err { IfErr result (λ e. e ≡ Failure.Writing) }
{
    match write_bytes(answer, output) {
        Ok(()) => Ok(()),
        Err(_) => Err(Failure::Writing),
    }
}
