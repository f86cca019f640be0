//! Parts of a module.
ghost use Rattle.std.specs.Prelude.{◌≡◌, ◌<◌, ◌≤◌, [], length, IfOk, IfErr};
ghost use Rattle.pliron_text_llvm_syntax.specs.Tokens.{IsFaultIn};
ghost use Rattle.std.specs.List.{All};
ghost use Rattle.pliron_text_llvm_syntax.specs.Parts.{span_of_part, bytes_of_parts, AreConsecutive, IsPartAt};
ghost use Rattle.pliron_text_llvm_syntax.specs.Parts.{IsDefineAt, AreRaw, IsRawOrFunction};

use crate::brackets::token_tree_at;
use crate::fault::LlvmFault;
use crate::functions::{FunctionText, function_at, is_define};
use crate::tokens::{Bracket, ByteSpan, bytes_of};
use std::alloc::{AllocError, Global};

/// A part of a module.
#[derive(Clone, Copy, Debug, Drop, PartialEq, Eq)]
pub enum ModulePart {
    /// Text before, between or behind functions.
    Raw(ByteSpan),
    Function(FunctionText),
}

impl ModulePart {
    /// Where it is in the text. Cost: constant.
    pub fn span(&self) -> ByteSpan
        ensures { result ≡ span_of_part self.now }
    {
        match self {
            ModulePart::Raw(span) => *span,
            ModulePart::Function(function) => function.span,
        }
    }
}

// Where the next function begins, or the end of the text.
#[tactic(auto, using(crate::proofs::PartLemmas::raw_none, crate::proofs::PartLemmas::raw_more, crate::proofs::PartLemmas::define_found))]
fn raw_end(text: &[u8], at: usize, open: &mut Vec<Bracket>) -> Result<usize, LlvmFault>
    requires { at ≤ length text.now }
    ensures end { IfOk result (λ end. (at ≤ end) × (end ≤ length text.now)) }
    ensures raw { IfOk result (λ end. AreRaw text.now at end) }
    ensures define { IfOk result (λ end. end < length text.now → IsDefineAt text.now end) }
    ensures fault { IfErr result (λ fault. IsFaultIn text.now fault) }
{
    let mut end = at;
    while end < text.len() {
        let token = token_tree_at(text, end, open)?;
        if is_define(text, &token) {
            break;
        }
        end = token.span.end;
    }
    Ok(end)
}

// The part that begins at this byte.
fn part_at(text: &[u8], at: usize, open: &mut Vec<Bracket>) -> Result<ModulePart, LlvmFault>
    requires { at < length text.now }
    ensures part { IfOk result (λ part. IsPartAt text.now at part) }
    ensures raw_or_function { IfOk result (λ part. IsRawOrFunction text.now part) }
    ensures fault { IfErr result (λ fault. IsFaultIn text.now fault) }
{
    let end = raw_end(text, at, open)?;
    if at < end {
        Ok(ModulePart::Raw(ByteSpan { start: at, end }))
    } else {
        Ok(ModulePart::Function(function_at(text, at, open)?))
    }
}

// Adds the parts of the text to none.
#[tactic(auto, using(crate::proofs::PartLemmas::consecutive_append, crate::proofs::PartLemmas::consecutive_none, crate::proofs::PartLemmas::consecutive_end, crate::proofs::FaultLemmas::fault_memory))]
fn split_into(
    text: &[u8],
    open: &mut Vec<Bracket>,
    parts: &mut Vec<ModulePart>,
) -> Result<(), LlvmFault>
    requires { parts.old.items ≡ [] }
    ensures parts { IfOk result (λ _. AreConsecutive 0 (length text.now) parts.new.items) }
    ensures functions { IfOk result (λ _. All (IsRawOrFunction text.now) parts.new.items) }
    ensures fault { IfErr result (λ fault. IsFaultIn text.now fault) }
{
    let mut at = 0;
    while at < text.len() {
        let part = part_at(text, at, open)?;
        parts.push(part)?;
        at = part.span().end;
    }
    Ok(())
}

/// The parts of a module, which are the text: functions with bodies, and the raw text before, between and behind them.
/// A function begins with the word `define` outside brackets, strings, comments and names.
///
/// Errors: something that isn't a token, a bracket or a string that doesn't end, a bracket that closes nothing, or a
/// function without a name, parameters or a body; allocation failure. Cost: linear in the text, with a byte for each
/// bracket in one another.
#[tactic(auto, using(crate::proofs::PartLemmas::consecutive_bytes))]
pub fn split_text(alloc: Global, text: &[u8]) -> Result<Vec<ModulePart>, LlvmFault>
    ensures consecutive { IfOk result (λ parts. AreConsecutive 0 (length text.now) parts.items) }
    ensures text { IfOk result (λ parts. bytes_of_parts text.now parts.items ≡ text.now) }
    ensures functions { IfOk result (λ parts. All (IsRawOrFunction text.now) parts.items) }
    ensures fault { IfErr result (λ fault. IsFaultIn text.now fault) }
{
    let mut open = Vec::new(alloc);
    let mut parts = Vec::new(alloc);
    match split_into(text, &mut open, &mut parts) {
        Ok(()) => Ok(parts),
        Err(fault) => Err(fault),
    }
}

/// The bytes of the parts in their order: the text. Asks that they are those of the text. Errors: allocation failure. Cost: linear in the text.
#[tactic(auto, using(crate::proofs::PartLemmas::consecutive_bytes, crate::proofs::PartLemmas::consecutive_step, crate::proofs::PartLemmas::consecutive_le, crate::proofs::PartLemmas::joined_step, crate::proofs::PartLemmas::joined_all))]
pub fn join_parts(alloc: Global, text: &[u8], parts: &[ModulePart]) -> Result<Vec<u8>, AllocError>
    requires { AreConsecutive 0 (length text.now) parts.now }
    ensures parts { IfOk result (λ joined. joined.items ≡ bytes_of_parts text.now parts.now) }
    ensures text { IfOk result (λ joined. joined.items ≡ text.now) }
{
    let mut joined = Vec::with_capacity(alloc, text.len())?;
    for part in parts {
        joined.extend_from_slice(bytes_of(text, part.span()))?;
    }
    Ok(joined)
}
