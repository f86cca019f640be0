//! Where a text leaves the notation.
ghost use Rattle.std.specs.Prelude.{◌≡◌, ◌+◌, ◌≤◌, [], length, IfOk, IfErr, IfSome};
ghost use Rattle.pliron_driver_buffers.specs.Fills.{Fills};
ghost use Rattle.pliron_driver_buffers.specs.Faults.{no_place, IsPartOf, IsFaultPlace};

use crate::buffer::{put, put_nothing};
use crate::optimise_module::MAX_MODULE;
use crate::status::{CallFailure, Status};
use pliron_core::Context;
use pliron_driver::{MAX_TEXT, TextFailure};
use pliron_driver_mlir::failure_of;
use pliron_laws::Dialect;
use pliron_show_places::position_of;
use pliron_text::find_text_fault;
use pliron_text_mlir_reader::{Expectation, read_module};
use std::alloc::Global;

/// A part of a text: after how many bytes it begins and how many it has, and the line and column of its first
/// byte, counted from 1, columns by bytes. All are 0 where no part is meant.
#[repr(C)]
#[derive(Clone, Copy, Debug, PartialEq, Eq)]
pub struct Place {
    pub start: usize,
    pub len: usize,
    pub line: usize,
    pub column: usize,
}

/// No part.
const NOWHERE: Place = Place {
    start: 0,
    len: 0,
    line: 0,
    column: 0,
};

/// What is wrong with a text: after how many bytes, in how many, and what was expected there.
#[derive(Drop)]
struct BufferFault {
    start: usize,
    len: usize,
    expected: String,
}

// The first place at which the text leaves the notation or is too long. Errors: allocation failure.
fn fault_of(alloc: Global, text: &[u8]) -> Result<Option<BufferFault>, CallFailure>
    ensures within { IfOk result (λ found. IfSome found (λ fault. fault.start + fault.len ≤ length text.now)) }
    ensures memory { IfErr result (λ failure. failure ≡ CallFailure.Memory) }
{
    if text.len() > MAX_TEXT {
        return Ok(Some(BufferFault {
            start: MAX_TEXT,
            len: text.len() - MAX_TEXT,
            expected: format!(in alloc; "at most {MAX_TEXT} bytes")?,
        }));
    }
    match find_text_fault(alloc, text) {
        Ok(Some(fault)) => Ok(Some(BufferFault {
            start: fault.span.start,
            len: fault.span.len,
            expected: fault.expected.to_string(alloc)?,
        })),
        Ok(None) => Ok(None),
        Err(error) => Err(CallFailure::of(error)),
    }
}

// The part of so many bytes after these.
fn place_in(text: &[u8], start: usize, len: usize) -> Place
    requires { start + len ≤ length text.now }
    ensures { IsPartOf text.now result }
{
    let position = position_of(text, start);
    Place {
        start,
        len,
        line: position.line,
        column: position.column,
    }
}

// Reports the place of what was found in the text, and puts what was expected there into the buffer.
fn report_fault(
    found: Result<Option<BufferFault>, CallFailure>,
    text: &[u8],
    output: &mut [u8],
    needed: &mut usize,
    place: &mut Place,
) -> Status
    requires within { IfOk found (λ found. IfSome found (λ fault. fault.start + fault.len ≤ length text.now)) }
    requires memory { IfErr found (λ failure. failure ≡ CallFailure.Memory) }
    ensures fills { Fills (λ expected. place.new ≡ no_place → expected ≡ [])
        (λ failure. (failure ≡ CallFailure.Memory) × (place.new ≡ no_place)) output.old output.new needed.new result }
    ensures place { IsFaultPlace text.now place.new }
{
    match found {
        Ok(Some(fault)) => {
            *place = place_in(text, fault.start, fault.len);
            put(fault.expected.as_bytes(), output, needed)
        }
        Ok(None) => {
            *place = NOWHERE;
            put(&[], output, needed)
        }
        Err(failure) => {
            *place = NOWHERE;
            put_nothing(failure, needed)
        }
    }
}

/// Finds where a text of the bench notation leaves it, or is too long, and puts what was expected there into the
/// buffer; of a text that is read the place is no part, and nothing is put.
///
/// Nothing is written to the buffer unless all fits. It fails on allocation failure alone. Cost: that of reading.
pub fn find_fault_into(
    alloc: Global,
    text: &[u8],
    output: &mut [u8],
    needed: &mut usize,
    place: &mut Place,
) -> Status
    ensures fills { Fills (λ expected. place.new ≡ no_place → expected ≡ [])
        (λ failure. (failure ≡ CallFailure.Memory) × (place.new ≡ no_place)) output.old output.new needed.new result }
    ensures place { IsFaultPlace text.now place.new }
{
    report_fault(fault_of(alloc, text), text, output, needed, place)
}

// The first place at which the text leaves MLIR's generic form, or asks for what a dialect doesn't admit, or is too
// long. Errors: allocation failure.
fn fault_of_module<D: Dialect>(
    alloc: Global,
    text: &[u8],
) -> Result<Option<BufferFault>, CallFailure>
    ensures within { IfOk result (λ found. IfSome found (λ fault. fault.start + fault.len ≤ length text.now)) }
    ensures memory { IfErr result (λ failure. failure ≡ CallFailure.Memory) }
{
    if text.len() > MAX_MODULE {
        return Ok(Some(BufferFault {
            start: MAX_MODULE,
            len: text.len() - MAX_MODULE,
            expected: Expectation::ShorterText.to_string(alloc)?,
        }));
    }
    let mut ctx = Context::new(alloc);
    fault_of_module_in::<D>(alloc, text, &mut ctx)
}

// The same, by reading it into a context.
fn fault_of_module_in<D: Dialect>(
    alloc: Global,
    text: &[u8],
    ctx: &mut Context,
) -> Result<Option<BufferFault>, CallFailure>
    ensures within { IfOk result (λ found. IfSome found (λ fault. fault.start + fault.len ≤ length text.now)) }
    ensures memory { IfErr result (λ failure. failure ≡ CallFailure.Memory) }
{
    let Err(fault) = read_module::<D>(alloc, text, ctx) else {
        return Ok(None);
    };
    match failure_of(fault) {
        TextFailure::Text(fault) => Ok(Some(BufferFault {
            start: fault.place.min(text.len()),
            len: 0,
            expected: fault.expected.to_string(alloc)?,
        })),
        TextFailure::Refused(_) => Err(CallFailure::Memory),
    }
}

/// Finds where a module of MLIR leaves the generic form, or is too long, as `find_fault_into` does for the bench
/// notation. Of such a place the part is empty, unless the module is too long.
///
/// Nothing is written to the buffer unless all fits. It fails on allocation failure alone. Cost: that of reading.
pub fn find_module_fault_into<D: Dialect>(
    alloc: Global,
    text: &[u8],
    output: &mut [u8],
    needed: &mut usize,
    place: &mut Place,
) -> Status
    ensures fills { Fills (λ expected. place.new ≡ no_place → expected ≡ [])
        (λ failure. (failure ≡ CallFailure.Memory) × (place.new ≡ no_place)) output.old output.new needed.new result }
    ensures place { IsFaultPlace text.now place.new }
{
    report_fault(
        fault_of_module::<D>(alloc, text),
        text,
        output,
        needed,
        place,
    )
}
