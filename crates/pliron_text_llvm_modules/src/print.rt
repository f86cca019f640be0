//! Printing a module.
ghost use Rattle.std.specs.Prelude.{◌≡◌, ◌<◌, ◌≤◌, [], length, map, slice_index_or, IfOk};
ghost use Rattle.pliron_text_llvm_syntax.specs.Tokens.{bytes_of_span};
ghost use Rattle.pliron_text_llvm_syntax.specs.Parts.{span_of_part, AreConsecutive};
ghost use Rattle.pliron_text_llvm_modules.specs.Modules.{module_part_of, printed_part, number_behind_part, printed_from};

use crate::function::ModuleFunction;
use crate::module::ReadPart;
use pliron_text_llvm_syntax::{ByteSpan, bytes_of};
use std::alloc::{AllocError, Global};

impl ReadPart {
    /// Where it is in the text. Cost: constant.
    pub fn span(&self) -> ByteSpan
        ensures { result ≡ span_of_part (module_part_of self.now) }
    {
        match self {
            ReadPart::Raw(span) => *span,
            ReadPart::Function(function, _) => function.span,
        }
    }
}

// The bytes of the part: this text, where it is a function that was read, and else those that it is written with.
fn bytes_of_part<'t>(text: &'t [u8], part: &ReadPart, own: &'t [u8]) -> &'t [u8]
    requires ordered { (span_of_part (module_part_of part.now)).start ≤ (span_of_part (module_part_of part.now)).end }
    requires within { (span_of_part (module_part_of part.now)).end ≤ length text.now }
    ensures { result.now ≡ printed_part text.now part.now own.now }
{
    match part {
        ReadPart::Function(_, ModuleFunction::Read(_)) => own,
        ReadPart::Function(_, ModuleFunction::Kept(_, _)) | ReadPart::Raw(_) => {
            bytes_of(text, part.span())
        }
    }
}

// The number of the text that the next function has which was read.
fn number_behind_part(number: usize, part: &ReadPart) -> usize
    requires { number < 18446744073709551615 }
    ensures { result ≡ number_behind_part number part.now }
{
    match part {
        ReadPart::Function(_, ModuleFunction::Read(_)) => number + 1,
        ReadPart::Function(_, ModuleFunction::Kept(_, _)) | ReadPart::Raw(_) => number,
    }
}

// The text of this number, none where there are fewer.
fn text_at<'t>(texts: &[&'t [u8]], number: usize) -> &'t [u8]
    ensures { result.now ≡ slice_index_or (map (λ text. text.now) texts.now) number [] }
{
    match texts.get(number) {
        Some(text) => text,
        None => &[],
    }
}

/// The bytes of a module: for its functions that were read these texts, in their order, and nothing for those that are
/// left without one; each other part is printed as it is written.
///
/// Asks that the parts are those of the text, as `read_module` gives them. Errors: allocation failure. Cost: linear in
/// the text and the texts.
#[tactic(auto, using(crate::proofs::PrintLemmas::part_within, crate::proofs::PrintLemmas::print_step, crate::proofs::PrintLemmas::print_end))]
pub fn print_module(
    alloc: Global,
    text: &[u8],
    parts: &[ReadPart],
    texts: &[&[u8]],
) -> Result<Vec<u8>, AllocError>
    requires { AreConsecutive 0 (length text.now) (map module_part_of parts.now) }
    ensures { IfOk result (λ printed.
        printed.items ≡ printed_from text.now (map (λ text. text.now) texts.now) 0 parts.now) }
{
    let mut printed = Vec::with_capacity(alloc, text.len())?;
    let mut number = 0;
    for part in parts {
        printed.extend_from_slice(bytes_of_part(text, part, text_at(texts, number)))?;
        number = number_behind_part(number, part);
    }
    Ok(printed)
}
