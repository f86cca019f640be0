//! Data of runs as people write and read them.
ghost use Rattle.std.specs.Prelude.{◌≡◌, ◌≤◌, ◌<◌, ◌∷◌, [], length, map, MatchOption, IfOk, IfSome};
ghost use Rattle.pliron_laws.specs.Datum.{Number as NumberOf};
ghost use Rattle.pliron_evaluator.specs.Evaluator.{datum_of_value};
ghost use Rattle.pliron_show.specs.Words.{SaysNumber};
ghost use Rattle.pliron_show_mlir.specs.RunWords.{NamesWidth, value_word, type_word, SaysInteger, says_input, says_part, AreSaidBy, comma_parts, says_answer};

use crate::constants::{name_of_head, push_form, push_typed};
use pliron_core::{AttrObj, Attrs, Head};
use pliron_dialect_mlir::{INDEX, integer_datum, integer_of, number};
use pliron_evaluator::evaluator::Datum;
use pliron_role_runs::own_moves::chain_of;
use pliron_text_mlir_printer::{form_of_datum, form_of_head};
use pliron_text_mlir_syntax::Sheet;
use std::alloc::{AllocError, Global};

/// Which words say data.
pub static WORDS: &str = "\
an integer with its type that fits in it, as `5:i32`, `-1:i8` or `7:index`, of 1 to 64 bits, and of 64 without a type; \
`true`, `false`; or `()` for what is no number. To an effect the world may answer several, with commas between them";

// The width of the type of this name, if it is a type of integers.
fn width_of_type(name: &str) -> Option<u32>
    ensures names { IfSome result (NamesWidth name.now) }
    ensures at_least { IfSome result (λ width. 1 ≤ width) }
    ensures at_most { IfSome result (λ width. width ≤ 65) }
{
    if name == "index" {
        return Some(INDEX);
    }
    let width = name.strip_prefix("i")?.parse::<u32>().ok()?;
    if 1 <= width && width <= 64 {
        Some(width)
    } else {
        None
    }
}

// The number in decimals that the word is.
fn number_of_word(word: &str) -> Option<i128>
    ensures { IfSome result (SaysNumber word.now) }
{
    word.parse::<i128>().ok()
}

// The value and the name of the type that the word says.
fn value_and_type(word: &str) -> (&str, &str)
    ensures value { result.0.now ≡ value_word word.now }
    ensures type_name { result.1.now ≡ type_word word.now }
{
    word.split_once(':').unwrap_or((word, "i64"))
}

// The integer that the word is, with its type or of 64 bits.
fn integer_of_word(word: &str) -> Option<i128>
    ensures { IfSome result (SaysInteger word.now) }
{
    let (value, name) = value_and_type(word);
    let width = width_of_type(name.trim())?;
    let value = number_of_word(value.trim())?;
    integer_datum(width, value)
}

/// The datum that the word says, if it does. Cost: linear in it.
pub fn datum_of_word(word: &str) -> Option<Datum>
    ensures { IfSome result (λ datum. says_input word.now (datum_of_value datum)) }
{
    match word {
        "()" => Some(Datum::Empty),
        "true" => Some(Datum::Number(number(1, 1))),
        "false" => Some(Datum::Number(number(1, 0))),
        _ => Some(Datum::Number(integer_of_word(word)?)),
    }
}

// The same of a part of an answer: `^N` is the region or the successor with this number, and `end` that there is none.
fn datum_of_part(word: &str) -> Option<Datum>
    ensures { IfSome result (λ datum. says_part word.now (datum_of_value datum)) }
{
    if word == "end" {
        return Some(Datum::Number(-1));
    }
    match word.strip_prefix("^") {
        Some(number) => Some(Datum::Number(i128::from(number.parse::<u32>().ok()?))),
        None => datum_of_word(word),
    }
}

// The part of the word before its first comma, and what is behind that, if it has one.
fn split_part(word: &str) -> Option<(&str, &str)>
    ensures parts { MatchOption result (comma_parts word.now ≡ word.now ∷ [])
        (λ found. comma_parts word.now ≡ found.0.now ∷ comma_parts found.1.now) }
    ensures shorter { IfSome result (λ found. length found.1.now < length word.now) }
{
    word.split_once(',')
}

// The data that the parts of the word say, if each says one.
fn data_of_parts(alloc: Global, word: &str) -> Result<Option<Vec<Datum>>, AllocError>
    ensures { IfOk result (λ found. IfSome found (λ said. AreSaidBy (comma_parts word.now)
        (map datum_of_value said.items))) }
{
    let mut data = Vec::new(alloc);
    let mut rest = word;
    while let Some((part, behind)) = split_part(rest) {
        match datum_of_part(part.trim()) {
            Some(datum) => data.push(datum)?,
            None => return Ok(None),
        }
        rest = behind;
    }
    match datum_of_part(rest.trim()) {
        Some(datum) => data.push(datum)?,
        None => return Ok(None),
    }
    Ok(Some(data))
}

/// The answer of the world that the word says, if it does: nothing, or data with commas between them. Errors: allocation
/// failure. Cost: linear in it.
pub fn answer_of_word(alloc: Global, word: &str) -> Result<Option<Datum>, AllocError>
    ensures { IfOk result (λ found. IfSome found (λ datum. says_answer word.now (datum_of_value datum))) }
{
    if word.is_empty() {
        return Ok(Some(Datum::Empty));
    }
    match data_of_parts(alloc, word)? {
        Some(data) => Ok(Some(chain_of(alloc, &data)?)),
        None => Ok(None),
    }
}

// Adds a number: an integer with its type, or a constant as its text has it.
fn push_number(out: &mut Vec<u8>, sheet: &Sheet, number: i128) -> Result<(), AllocError> {
    match (integer_of(number), form_of_datum(number, sheet)) {
        (Some((width, bits)), _) => push_typed(out, width, bits),
        (None, Some(form)) => push_form(out, form, sheet),
        (None, None) => out.extend_from_slice(b"?"),
    }
}

/// Adds a datum. Errors: allocation failure. Cost: linear in it.
pub fn push_datum(out: &mut Vec<u8>, sheet: &Sheet, datum: &Datum) -> Result<(), AllocError> {
    match datum {
        Datum::Empty => out.extend_from_slice(b"()"),
        Datum::Number(number) => push_number(out, sheet, *number),
        Datum::Text(word) => out.extend_from_slice(word.as_str().as_bytes()),
        Datum::Join(first, others) => {
            out.extend_from_slice(b"(")?;
            push_datum(out, sheet, first)?;
            out.extend_from_slice(b" ")?;
            push_datum(out, sheet, others)?;
            out.extend_from_slice(b")")
        }
    }
}

// Adds the data of a chain, each but the first behind a comma, and the first behind this.
fn push_chain(
    out: &mut Vec<u8>,
    sheet: &Sheet,
    chain: &Datum,
    before: &[u8],
) -> Result<(), AllocError> {
    match chain {
        Datum::Join(first, others) => {
            out.extend_from_slice(before)?;
            push_datum(out, sheet, first)?;
            push_chain(out, sheet, others, b", ")
        }
        _ => Ok(()),
    }
}

/// The number that the datum is. Cost: constant.
pub fn number_in(datum: &Datum) -> Option<i128>
    ensures { IfSome result (λ number. datum_of_value datum.now ≡ NumberOf number) }
{
    match datum {
        Datum::Number(number) => Some(*number),
        _ => None,
    }
}

// Adds the attributes that a chain has.
fn push_attributes(attrs: &mut Vec<AttrObj>, chain: &Datum) -> Result<(), AllocError> {
    match chain {
        Datum::Join(first, others) => {
            if let Some(number) = number_in(first) {
                attrs.push(AttrObj::Int(number))?;
            }
            push_attributes(attrs, others)
        }
        _ => Ok(()),
    }
}

// The symbol that these properties call, if they do.
fn callee_in(properties: &[u8]) -> Option<&str> {
    let text = std::str::from_utf8(properties).ok()?;
    let (_, rest) = text.split_once("callee = ")?;
    match rest.split_once(',') {
        Some((symbol, _)) => Some(symbol),
        None => Some(rest),
    }
}

// Adds the name of an operation with this head, and what it calls.
fn push_name(out: &mut Vec<u8>, sheet: &Sheet, head: &Head) -> Result<(), AllocError> {
    let name = name_of_head(head, sheet).unwrap_or("?");
    out.extend_from_slice(name.as_bytes())?;
    if let Some(form) = form_of_head(head, sheet)
        && let Some(properties) = form.properties
        && let Some(symbol) = callee_in(sheet.text(properties))
    {
        out.extend_from_slice(b" ")?;
        out.extend_from_slice(symbol.as_bytes())?;
    }
    Ok(())
}

// The kind of the operation whose effect begins with this, if it is of one: integers are above all kinds.
fn kind_in(first: &Datum) -> Option<u32> {
    u32::try_from(number_in(first)?).ok()
}

// Adds the effect of an operation of this kind, which is its attributes and its operands.
fn push_operation(
    alloc: Global,
    out: &mut Vec<u8>,
    sheet: &Sheet,
    kind: u32,
    rest: &Datum,
) -> Result<(), AllocError> {
    match rest {
        Datum::Join(attributes, operands) => {
            let mut attrs = Vec::new(alloc);
            push_attributes(&mut attrs, attributes)?;
            let head = Head {
                kind,
                ssa: true,
                attrs: Attrs::new(attrs),
            };
            push_name(out, sheet, &head)?;
            push_chain(out, sheet, operands, b" ")
        }
        _ => Ok(()),
    }
}

// Adds what a visit of a region gave.
fn push_given(out: &mut Vec<u8>, sheet: &Sheet, effect: &Datum) -> Result<(), AllocError> {
    out.extend_from_slice(b"a region gave")?;
    push_chain(out, sheet, effect, b" ")
}

/// Adds an effect: the name of its operation, what that calls, and the operands; or what a visit of a region gave. Errors:
/// allocation failure. Cost: linear in it.
pub fn push_effect(
    alloc: Global,
    out: &mut Vec<u8>,
    sheet: &Sheet,
    effect: &Datum,
) -> Result<(), AllocError> {
    match effect {
        Datum::Join(first, rest) => match kind_in(first) {
            Some(kind) => push_operation(alloc, out, sheet, kind, rest),
            None => push_given(out, sheet, effect),
        },
        _ => push_given(out, sheet, effect),
    }
}
