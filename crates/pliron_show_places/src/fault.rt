//! What is reported of texts outside the notation.
ghost use Rattle.std.specs.Prelude.{codes, IfOk, IfSome, IsOkUnless, string_bytes};
ghost use Rattle.pliron_laws.specs.declared.fault.OptError.TheVariants.{Memory};
ghost use Rattle.pliron_text.specs.Beginnings.{BeginsWith};
ghost use Rattle.pliron_show_places.specs.Messages.{heading};

use crate::fault_label::{FaultLabel, bench_label_of, label_of};
use crate::source_mark::{SourceMark, mark_source};
use pliron_laws::OptError;
use pliron_text::{Grammar, find_fault, find_text_fault};
use std::alloc::{AllocError, Global};

// The message with what is said of a place of the text.
fn message_with(
    alloc: Global,
    name: &str,
    text: &[u8],
    label: &FaultLabel,
) -> Result<String, AllocError>
    ensures { IfOk result (λ message. BeginsWith (string_bytes message) (heading (codes "error")
        (codes "unreadable text"))) }
{
    let mark = SourceMark {
        message: "unreadable text",
        label: label.reported.as_str(),
        name,
        start: label.span.start,
        len: label.span.len,
    };
    mark_source(alloc, text, &mark)
}

/// The message for a text that the bench notation doesn't have: the first place where it leaves the notation, and what
/// fits there or is meant; `None` for one that it has. `name` says where the text is from.
///
/// Errors: allocation failure. Cost: that of reading.
pub fn text_fault(alloc: Global, name: &str, text: &[u8]) -> Result<Option<String>, OptError>
    ensures heading { IfOk result (λ found. IfSome found (λ message. BeginsWith (string_bytes message)
        (heading (codes "error") (codes "unreadable text")))) }
    ensures memory { IsOkUnless result OptError.Memory }
{
    let Some(fault) = find_text_fault(alloc, text)? else {
        return Ok(None);
    };
    let label = bench_label_of(alloc, text, &fault)?;
    Ok(Some(message_with(alloc, name, text, &label)?))
}

/// The same for a text of the dialect of these kinds.
///
/// Errors: allocation failure. Cost: that of reading.
pub fn kind_fault<K: Grammar>(
    alloc: Global,
    name: &str,
    text: &[u8],
) -> Result<Option<String>, OptError>
    ensures heading { IfOk result (λ found. IfSome found (λ message. BeginsWith (string_bytes message)
        (heading (codes "error") (codes "unreadable text")))) }
    ensures memory { IsOkUnless result OptError.Memory }
{
    let Some(fault) = find_fault::<K>(alloc, text)? else {
        return Ok(None);
    };
    let label = label_of::<K>(alloc, text, &fault)?;
    Ok(Some(message_with(alloc, name, text, &label)?))
}
