//! An answer whose values and blocks keep their names.
ghost use Rattle.std.specs.Prelude.{◌≡◌, IfOk, IfSome, IsTrue, string_bytes};
ghost use Rattle.pliron_core.specs.Writes.{no_tree};
ghost use Rattle.pliron_show_places.specs.Layout.{words_of};
ghost use Rattle.pliron_show_changes.specs.NamedAnswer.{IsAnswerWritten, IsWrittenAlike, IsReadAlike, ReadsAs};

use pliron_core::Context;
use pliron_driver::Notation;
use pliron_laws::OptError;
use pliron_show::{ShownNotation, read_shown};
use std::alloc::{AllocError, Global};

// Whether the text is read as an operation that is printed as this answer, in this empty context.
#[tactic(auto, using(crate::proofs::AnswerLemmas::reads_as))]
fn reads_as_in<N: Notation>(
    alloc: Global,
    text: &str,
    answer: &str,
    ctx: &mut Context,
) -> Result<bool, OptError>
    requires { ctx.old.tree ≡ no_tree }
    ensures { IfOk result (λ is. IsTrue is → ReadsAs N.reads N.prints answer.now text.now) }
{
    let Some(document) = read_shown::<N>(alloc, text.as_bytes(), ctx)? else {
        return Ok(false);
    };
    let printed = N::print_document(alloc, &document, ctx)?;
    if printed.as_slice() != answer.as_bytes() {
        return Ok(false);
    }
    Ok(true)
}

// The same in a context of its own.
fn reads_as<N: Notation>(alloc: Global, text: &str, answer: &str) -> Result<bool, OptError>
    ensures { IfOk result (λ is. IsTrue is → ReadsAs N.reads N.prints answer.now text.now) }
{
    let mut ctx = Context::new(alloc);
    reads_as_in::<N>(alloc, text, answer, &mut ctx)
}

// The text, over several lines or as it is.
fn lay_out<N: ShownNotation>(
    alloc: Global,
    text: &str,
    is_pretty: bool,
) -> Result<Vec<u8>, AllocError>
    ensures { IfOk result (λ output. words_of output.items ≡ words_of text.now) }
{
    if is_pretty {
        N::on_lines(alloc, text.as_bytes())
    } else {
        Vec::from_slice(alloc, text.as_bytes())
    }
}

/// Writes an answer as the named text where that says the same: it is read again, and has to be printed as the answer.
/// Otherwise the answer is written as it is. Either is laid out over several lines where that is asked for.
///
/// Errors: allocation failure. Cost: reading and printing.
#[tactic(auto, using(crate::proofs::AnswerLemmas::as_it_is, crate::proofs::AnswerLemmas::by_names))]
pub fn write_named_answer<N: ShownNotation>(
    alloc: Global,
    answer: &str,
    named: Option<&str>,
    is_pretty: bool,
) -> Result<Vec<u8>, OptError>
    ensures { IfOk result (λ output. IsAnswerWritten N.reads N.prints answer.now output.items) }
{
    if let Some(text) = named
        && reads_as::<N>(alloc, text, answer)?
    {
        return Ok(lay_out::<N>(alloc, text, is_pretty)?);
    }
    Ok(lay_out::<N>(alloc, answer, is_pretty)?)
}

// How the operation that the text is read as is printed, in this empty context; `None` for an unreadable text.
#[tactic(auto, using(crate::proofs::AnswerLemmas::printed_so))]
fn printed_in<N: Notation>(
    alloc: Global,
    text: &str,
    ctx: &mut Context,
) -> Result<Option<Vec<u8>>, OptError>
    requires { ctx.old.tree ≡ no_tree }
    ensures { IfOk result (λ found. IfSome found (λ printed. ReadsAs N.reads N.prints printed.items text.now)) }
{
    match read_shown::<N>(alloc, text.as_bytes(), ctx)? {
        Some(document) => Ok(Some(N::print_document(alloc, &document, ctx)?)),
        None => Ok(None),
    }
}

// The same in a context of its own.
fn printed_again<N: Notation>(alloc: Global, text: &str) -> Result<Option<Vec<u8>>, OptError>
    ensures { IfOk result (λ found. IfSome found (λ printed. ReadsAs N.reads N.prints printed.items text.now)) }
{
    let mut ctx = Context::new(alloc);
    printed_in::<N>(alloc, text, &mut ctx)
}

// Whether both texts are read as operations that are printed alike.
#[tactic(auto, using(crate::proofs::AnswerLemmas::read_alike))]
fn reads_alike<N: Notation>(alloc: Global, answer: &str, text: &str) -> Result<bool, OptError>
    ensures { IfOk result (λ is. IsTrue is → IsReadAlike N.reads N.prints answer.now text.now) }
{
    let Some(first) = printed_again::<N>(alloc, answer)? else {
        return Ok(false);
    };
    let Some(second) = printed_again::<N>(alloc, text)? else {
        return Ok(false);
    };
    if first.as_slice() != second.as_slice() {
        return Ok(false);
    }
    Ok(true)
}

/// Writes an answer whose values are numbered by handles as the named text where that says the same: both are read, and
/// have to be printed alike. Otherwise the answer is written as it is.
///
/// Errors: allocation failure. Cost: reading and printing both.
#[tactic(auto, using(crate::proofs::AnswerLemmas::unchanged, crate::proofs::AnswerLemmas::renamed))]
pub fn write_renamed_answer<N: ShownNotation>(
    alloc: Global,
    answer: &str,
    named: Option<&str>,
) -> Result<Vec<u8>, OptError>
    ensures { IfOk result (λ output. IsWrittenAlike N.reads N.prints answer.now output.items) }
{
    if let Some(text) = named
        && reads_alike::<N>(alloc, answer, text)?
    {
        return Ok(lay_out::<N>(alloc, text, false)?);
    }
    Ok(lay_out::<N>(alloc, answer, false)?)
}
