//! Names of values and blocks as a sheet has them.
ghost use Rattle.std.specs.Prelude.{◌≡◌, slice_get, IfOk, IfSome};
ghost use Rattle.std.specs.Option.{option_copied};
ghost use Rattle.pliron_text_llvm_sheets.specs.Sheets.{KeepsSheet};
ghost use Rattle.pliron_text_llvm_plans.specs.Names.{bytes_without_colon, IsNameOf, IsBlockNameOf};

use crate::stop::PlanStop;
use pliron_text_llvm_names::{LocalDefinition, LocalName, bytes_in, label_name, local_name};
use pliron_text_llvm_reader::{BodyLine, FunctionBody};
use pliron_text_llvm_sheets::LlvmSheet;
use pliron_text_llvm_syntax::ByteSpan;
use std::alloc::{AllocError, Global};

/// The number of the name of what has this definition: none of what is called by a number. Errors: allocation failure.
/// Cost: linear in the name.
#[tactic(auto, using(pliron_text_llvm_sheets::proofs::KeepingLemmas::sheet_steps))]
pub fn name_of(
    text: &[u8],
    definition: Option<&LocalDefinition>,
    sheet: &mut LlvmSheet,
) -> Result<Option<usize>, AllocError>
    ensures name { IfOk result (λ found. IfSome found (λ number.
        IsNameOf text.now sheet.new (option_copied definition.entry) number)) }
    ensures sheet { KeepsSheet sheet.old sheet.new }
{
    match definition {
        Some(
            LocalDefinition {
                name: Some(span),
                ..
            },
        ) => match local_name(text, *span) {
            Ok(LocalName::Text(_)) => Ok(Some(sheet.number(bytes_in(text, *span))?)),
            Ok(LocalName::Number(_)) | Err(_) => Ok(None),
        },
        _ => Ok(None),
    }
}

// The number of the next parameter behind one of this name.
fn number_behind(text: &[u8], span: ByteSpan, next: u32) -> u32 {
    match local_name(text, span) {
        Ok(LocalName::Number(number)) => number.saturating_add(1),
        Ok(LocalName::Text(_)) | Err(_) => next,
    }
}

/// The number of the name of a parameter, where `next` is the next number, and the one that is next behind it. It keeps
/// its number, since the text before the body does. Errors: allocation failure. Cost: linear in the name.
#[tactic(auto, using(pliron_text_llvm_sheets::proofs::KeepingLemmas::sheet_steps))]
pub fn name_of_parameter(
    alloc: Global,
    text: &[u8],
    definition: Option<&LocalDefinition>,
    next: u32,
    sheet: &mut LlvmSheet,
) -> Result<(usize, u32), PlanStop>
    ensures { KeepsSheet sheet.old sheet.new }
{
    match definition {
        Some(
            LocalDefinition {
                name: Some(span),
                ..
            },
        ) => {
            let number = sheet.number(bytes_in(text, *span))?;
            Ok((number, number_behind(text, *span, next)))
        }
        _ => {
            let name = format!(in alloc; "%{next}")?;
            let number = sheet.number(name.as_str().as_bytes())?;
            Ok((number, next.saturating_add(1)))
        }
    }
}

// The bytes of the label without its `:`.
fn without_colon(text: &[u8], span: ByteSpan) -> &[u8]
    ensures { result.now ≡ bytes_without_colon text.now span }
{
    let inside = ByteSpan {
        start: span.start,
        end: span.end.saturating_sub(1),
    };
    bytes_in(text, inside)
}

/// The number of the name of the block that begins with the line: none of what is called by a number. Errors: allocation
/// failure. Cost: linear in the name.
#[tactic(auto, using(pliron_text_llvm_sheets::proofs::KeepingLemmas::sheet_steps))]
pub fn name_of_block(
    text: &[u8],
    body: &FunctionBody,
    line: usize,
    sheet: &mut LlvmSheet,
) -> Result<Option<usize>, AllocError>
    ensures name { IfOk result (λ found. IfSome found (λ number.
        IsBlockNameOf text.now sheet.new (slice_get body.now.lines.items line) number)) }
    ensures sheet { KeepsSheet sheet.old sheet.new }
{
    match body.lines.get(line) {
        Some(BodyLine::Label(span)) => match label_name(text, *span) {
            Ok(LocalName::Text(_)) => Ok(Some(sheet.number(without_colon(text, *span))?)),
            Ok(LocalName::Number(_)) | Err(_) => Ok(None),
        },
        Some(BodyLine::Statement(_)) | None => Ok(None),
    }
}
