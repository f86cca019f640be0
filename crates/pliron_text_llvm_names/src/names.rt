//! What names of values and blocks say.
ghost use Rattle.std.specs.Prelude.{◌≡◌, ◌<◌, ◌+◌, ◌-◌, ◌*◌, true, IfOk, IfErr, IfSome, IfNone};
ghost use Rattle.std.specs.List.{list_all};
ghost use Rattle.std.specs.Char.{is_ascii_digit};
ghost use Rattle.pliron_text_llvm_syntax.specs.Tokens.{bytes_of_span};
ghost use Rattle.pliron_text_llvm_names.specs.Names.{key_of, decimal, all_but_first, all_but_last, has_escape, key_of_word};
ghost use Rattle.pliron_text_llvm_names.specs.Names.{key_of_local, key_of_label, IsUnspelled};
ghost use Rattle.pliron_text_llvm_names.specs.Names.NameKey.{Number, Text};
ghost use Rattle.pliron_text_llvm_names.specs.declared.names.NameFault.TheVariants.{Escape, LargeNumber};

use pliron_text_llvm_syntax::ByteSpan;
use thiserror::Error;

/// The name of a value or a block.
#[doc(hidden)]
#[derive(Clone, Copy, Debug, Drop)]
pub enum LocalName<'t> {
    /// Digits that aren't in quotes, or what has no name in the text.
    Number(u32),
    /// Any other word, or what is in quotes.
    Text(&'t [u8]),
}

/// Why a name isn't read.
#[doc(hidden)]
#[derive(Clone, Copy, Debug, Drop, PartialEq, Eq, Error)]
pub enum NameFault {
    #[error("an escape in a name")]
    Escape,
    #[error("a number of more than 32 bits")]
    LargeNumber,
}

/// The bytes of the span, as far as the text has them. Cost: constant.
#[doc(hidden)]
#[tactic(auto, using(crate::proofs::NameLemmas::dropped_all, crate::proofs::NameLemmas::taken_all, crate::proofs::NameLemmas::taken_some))]
pub fn bytes_in(text: &[u8], span: ByteSpan) -> &[u8]
    ensures { result.now ≡ bytes_of_span text.now span }
{
    if span.start >= text.len() {
        return &[];
    }
    let behind = &text[span.start..];
    let len = span.end.saturating_sub(span.start);
    if len >= behind.len() {
        behind
    } else {
        &behind[..len]
    }
}

// Whether all of the word are digits.
fn are_digits(word: &[u8]) -> bool
    ensures { result ≡ list_all is_ascii_digit word.now }
{
    word.iter().all(|byte| byte.is_ascii_digit())
}

// The number with one more digit, if it has 32 bits at most.
fn with_digit(number: u32, digit: u8) -> Option<u32>
    ensures some { IfSome result (λ more. more ≡ number * 10 + (digit - 48)) }
    ensures none { IfNone result (4294967295 < number * 10 + (digit - 48)) }
{
    match number.checked_mul(10) {
        Some(tens) => tens.checked_add(u32::from(digit.saturating_sub(48))),
        None => None,
    }
}

// The number with these digits, if it has 32 bits at most.
#[tactic(auto, using(crate::proofs::NameLemmas::decimal_steps))]
fn decimal(digits: &[u8]) -> Option<u32>
    ensures some { IfSome result (λ number. number ≡ decimal digits.now) }
    ensures none { IfNone result (4294967295 < decimal digits.now) }
{
    let mut number: u32 = 0;
    for digit in digits {
        match with_digit(number, *digit) {
            Some(more) => number = more,
            None => return None,
        }
    }
    Some(number)
}

// All bytes but for the first.
fn all_but_first(bytes: &[u8]) -> &[u8]
    ensures { result.now ≡ all_but_first bytes.now }
{
    match bytes {
        [_, rest @ ..] => rest,
        [] => bytes,
    }
}

// All bytes but for the last.
fn all_but_last(bytes: &[u8]) -> &[u8]
    ensures { result.now ≡ all_but_last bytes.now }
{
    &bytes[..bytes.len().saturating_sub(1)]
}

// Whether an escape is among the bytes.
fn has_escape(bytes: &[u8]) -> bool
    ensures { result ≡ has_escape bytes.now }
{
    bytes.iter().any(|byte| *byte == b'\\')
}

// The number that the digits are.
fn number_named(digits: &[u8]) -> Result<LocalName<'_>, NameFault>
    ensures name { IfOk result (λ name. key_of name ≡ Number (decimal digits.now)) }
    ensures fault { IfErr result (λ fault. (fault ≡ LargeNumber) × (4294967295 < decimal digits.now)) }
{
    match decimal(digits) {
        Some(number) => Ok(LocalName::Number(number)),
        None => Err(NameFault::LargeNumber),
    }
}

// What is in quotes.
fn name_in_quotes(bytes: &[u8]) -> Result<LocalName<'_>, NameFault>
    ensures name { IfOk result (λ name. key_of name ≡ Text bytes.now) }
    ensures fault { IfErr result (λ fault. (fault ≡ Escape) × (has_escape bytes.now ≡ true)) }
{
    if has_escape(bytes) {
        Err(NameFault::Escape)
    } else {
        Ok(LocalName::Text(bytes))
    }
}

// The name that the word says.
fn name_of_word(word: &[u8]) -> Result<LocalName<'_>, NameFault>
    ensures name { IfOk result (λ name. key_of name ≡ key_of_word word.now) }
    ensures fault { IfErr result (λ fault. IsUnspelled word.now fault) }
{
    match word {
        [b'"', rest @ ..] => name_in_quotes(all_but_last(rest)),
        [_, ..] if are_digits(word) => number_named(word),
        _ => Ok(LocalName::Text(word)),
    }
}

/// The name of a local value or a block, which begins with `%`: a number, where it has digits alone and no quotes.
///
/// Errors: it has an escape in quotes, or is a number of more than 32 bits. Cost: linear in it.
#[doc(hidden)]
pub fn local_name(text: &[u8], span: ByteSpan) -> Result<LocalName<'_>, NameFault>
    ensures name { IfOk result (λ name. key_of name ≡ key_of_local text.now span) }
    ensures fault { IfErr result (λ fault. IsUnspelled (all_but_first (bytes_of_span text.now span)) fault) }
{
    name_of_word(all_but_first(bytes_in(text, span)))
}

/// The name of a block by its label, which ends with `:`. Errors: as `local_name`. Cost: linear in it.
#[doc(hidden)]
pub fn label_name(text: &[u8], span: ByteSpan) -> Result<LocalName<'_>, NameFault>
    ensures name { IfOk result (λ name. key_of name ≡ key_of_label text.now span) }
    ensures fault { IfErr result (λ fault. IsUnspelled (all_but_last (bytes_of_span text.now span)) fault) }
{
    name_of_word(all_but_last(bytes_in(text, span)))
}
