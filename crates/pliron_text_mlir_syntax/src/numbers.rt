//! Numbers in the texts of attributes.
ghost use Rattle.std.specs.Prelude.{◌≡◌, ◌+◌, ◌≤◌, Bool, true, false, nat_lt, length, map, replicate, codes, option_map, option_and_then, if◌then◌else◌, IfOk, MatchOption};
ghost use Rattle.std.specs.List.{position_or_len, before_first, after_first, slice_split};
ghost use Rattle.pliron_text_mlir_syntax.specs.Numbers.{without_blanks, between as between_texts, is_colon, is_comma, with_digit as with_digit_of, digits_written, signed_as, magnitude_written, signed_in, signed_written, unsaid_type as unsaid_type_of, typed_written};
ghost use Rattle.pliron_text_mlir_syntax.specs.Numbers.{integer_width as integer_width_of, width_written, largest as largest_of, bits_written, all_of, count_of_number, numbers_written, counts_inside, counts_written};
ghost use Rattle.pliron_text_mlir_syntax.specs.Numbers.{low_first as low_first_of, with_byte as with_byte_of, element_in, elements_in, elements_written, before_last_colon as before_last_colon_of, dense_written};

use std::alloc::{AllocError, Global};

/// A number with its sign.
#[doc(hidden)]
#[derive(Clone, Copy, Debug, PartialEq, Eq)]
pub struct SignedNumber {
    pub is_negative: bool,
    pub magnitude: u64,
}

/// The text without the blanks around it. Cost: their number.
#[doc(hidden)]
pub fn trim_blanks(text: &[u8]) -> &[u8]
    ensures { result.now ≡ without_blanks text.now }
{
    text.trim_ascii_start().trim_ascii_end()
}

/// How many bits an integer type has, 65 for `index`, and 0 for another type. Cost: constant.
#[doc(hidden)]
pub fn width_of_type(text: &[u8]) -> u32
    ensures same { result ≡ width_written text.now }
    ensures small { result ≤ 65 }
{
    if text == b"index".as_slice() {
        65
    } else {
        integer_width(text)
    }
}

// Of i1 to i64.
fn integer_width(text: &[u8]) -> u32
    ensures same { result ≡ integer_width_of text.now }
    ensures small { result ≤ 64 }
{
    let Some((first, digits)) = text.split_first() else {
        return 0;
    };
    if *first != b'i' || digits.len() > 2 {
        return 0;
    }
    match digits_of(digits, 10) {
        Some(width) if width <= 64 => width as u32,
        _ => 0,
    }
}

// The number with one more digit.
fn with_digit(number: u64, byte: u8, base: u32) -> Option<u64>
    requires at_least { 2 ≤ base }
    requires at_most { base ≤ 16 }
    ensures { result ≡ with_digit_of base number byte }
{
    let digit = (byte as char).to_digit(base)?;
    number.checked_mul(base as u64)?.checked_add(digit as u64)
}

// The number that all of the text writes.
fn digits_of(text: &[u8], base: u32) -> Option<u64>
    requires at_least { 2 ≤ base }
    requires at_most { base ≤ 16 }
    ensures { result ≡ digits_written base text.now }
{
    if text.is_empty() {
        return None;
    }
    let mut number = 0u64;
    for byte in text {
        number = with_digit(number, *byte, base)?;
    }
    Some(number)
}

// The number behind a sign: hexadecimal or decimal.
fn magnitude_of(text: &[u8]) -> Option<u64>
    ensures { result ≡ magnitude_written text.now }
{
    match text.strip_prefix(b"0x".as_slice()) {
        Some(digits) => digits_of(digits, 16),
        None => digits_of(text, 10),
    }
}

fn signed_behind(is_negative: bool, text: &[u8]) -> Option<SignedNumber>
    ensures { result ≡ option_map (signed_as is_negative) (magnitude_written text.now) }
{
    match magnitude_of(text) {
        Some(magnitude) => Some(SignedNumber {
            is_negative,
            magnitude,
        }),
        None => None,
    }
}

// The number that is all of the text.
fn signed_of(text: &[u8]) -> Option<SignedNumber>
    ensures { result ≡ signed_in text.now }
{
    if text == b"true".as_slice() {
        return Some(SignedNumber {
            is_negative: false,
            magnitude: 1,
        });
    }
    if text == b"false".as_slice() {
        return Some(SignedNumber {
            is_negative: false,
            magnitude: 0,
        });
    }
    match text.strip_prefix(b"-".as_slice()) {
        Some(rest) => signed_behind(true, rest),
        None => signed_behind(false, text),
    }
}

/// The number that the text is: decimal, hexadecimal, or a truth. Cost: its length.
#[doc(hidden)]
pub fn number_of(text: &[u8]) -> Option<SignedNumber>
    ensures { result ≡ signed_written text.now }
{
    signed_of(trim_blanks(text))
}

// The type of a number that says none.
fn unsaid_type(text: &[u8]) -> &[u8]
    ensures { result.now ≡ unsaid_type_of text.now }
{
    if text == b"true".as_slice() || text == b"false".as_slice() {
        b"i1".as_slice()
    } else {
        b"i64".as_slice()
    }
}

// Where the first colon is.
fn colon_in(text: &[u8]) -> Option<usize>
    ensures { result ≡ (if nat_lt (position_or_len is_colon text.now) (length text.now)
        then Some (position_or_len is_colon text.now) else None) }
{
    text.iter().position(|byte| *byte == b':')
}

// What is before the first colon, and what is behind it.
fn split_at_colon(text: &[u8]) -> Option<(&[u8], &[u8])>
    ensures { MatchOption result
        (nat_lt (position_or_len is_colon text.now) (length text.now) ≡ false)
        (λ parts. (nat_lt (position_or_len is_colon text.now) (length text.now) ≡ true)
        × (parts.0.now ≡ before_first is_colon text.now) × (parts.1.now ≡ after_first is_colon text.now)) }
{
    let at = colon_in(text)?;
    Some((&text[..at], &text[at + 1..]))
}

/// The number before a colon and the type behind it, which is `i64` where there is none, of a truth `i1`. Cost: the
/// length of the text.
#[doc(hidden)]
pub fn typed_number_of(text: &[u8]) -> Option<(SignedNumber, &[u8])>
    ensures { MatchOption result
        (typed_written text.now ≡ None)
        (λ said. typed_written text.now ≡ Some (said.0, said.1.now)) }
{
    match split_at_colon(text) {
        Some((number, written)) => Some((number_of(number)?, trim_blanks(written))),
        None => Some((number_of(text)?, unsaid_type(trim_blanks(text)))),
    }
}

// The largest number of so many bits.
#[tactic(auto, using(crate::proofs::NumberLemmas::largest_some))]
fn largest(width: u32) -> u64
    ensures same { result ≡ largest_of width }
    ensures some { 1 ≤ width → 1 ≤ result }
{
    if width < 64 {
        (1u64 << width) - 1
    } else {
        u64::MAX
    }
}

/// The bits of the number in so many, where it fits, read as signed or unsigned. Cost: constant.
#[doc(hidden)]
pub fn bits_of(width: u32, number: SignedNumber) -> Option<u64>
    ensures { result ≡ bits_written width number }
{
    if width == 0 {
        return None;
    }
    let most = largest(width);
    let magnitude = number.magnitude;
    if !number.is_negative {
        if magnitude <= most {
            Some(magnitude)
        } else {
            None
        }
    } else if magnitude == 0 {
        Some(0)
    } else if magnitude <= most / 2 + 1 {
        Some(most - magnitude + 1)
    } else {
        None
    }
}

// What is between these first bytes and these last ones, where the text begins and ends with them.
fn text_between<'t>(text: &'t [u8], start: &[u8], end: &[u8]) -> Option<&'t [u8]>
    ensures { MatchOption result
        (between_texts start.now end.now text.now ≡ None)
        (λ inner. between_texts start.now end.now text.now ≡ Some inner.now) }
{
    trim_blanks(text).strip_prefix(start)?.strip_suffix(end)
}

// The parts between commas.
fn parts_of(alloc: Global, text: &[u8]) -> Result<Vec<&[u8]>, AllocError>
    ensures { IfOk result (λ parts. map (λ part. part.now) parts.items ≡ slice_split is_comma text.now) }
{
    text.split(|byte| *byte == b',').collect(alloc)
}

// The number that each of the parts is.
#[tactic(auto, using(crate::proofs::NumberLemmas::reads_none, crate::proofs::NumberLemmas::reads_more, crate::proofs::NumberLemmas::reads_fail, crate::proofs::NumberLemmas::reads_all))]
fn numbers_of(alloc: Global, parts: &[&[u8]]) -> Result<Option<Vec<SignedNumber>>, AllocError>
    ensures { IfOk result (λ found. MatchOption found (all_of (map (λ part. signed_written part.now) parts.now) ≡ None)
        (λ numbers. all_of (map (λ part. signed_written part.now) parts.now) ≡ Some numbers.items)) }
{
    let mut found = Vec::new(alloc);
    for part in parts {
        let Some(number) = number_of(part) else {
            return Ok(None);
        };
        found.push(number)?;
    }
    Ok(Some(found))
}

// The numbers between commas.
#[tactic(auto, using(crate::proofs::NumberLemmas::numbers_of_parts))]
fn numbers_in(alloc: Global, text: &[u8]) -> Result<Option<Vec<SignedNumber>>, AllocError>
    ensures { IfOk result (λ found. MatchOption found (numbers_written text.now ≡ None)
        (λ numbers. numbers_written text.now ≡ Some numbers.items)) }
{
    if trim_blanks(text).is_empty() {
        return Ok(Some(Vec::new(alloc)));
    }
    let parts = parts_of(alloc, text)?;
    numbers_of(alloc, &parts)
}

// The numbers as counts.
#[tactic(auto, using(crate::proofs::NumberLemmas::reads_none, crate::proofs::NumberLemmas::reads_more, crate::proofs::NumberLemmas::reads_fail, crate::proofs::NumberLemmas::reads_all))]
fn counts_of(alloc: Global, numbers: &[SignedNumber]) -> Result<Option<Vec<usize>>, AllocError>
    ensures { IfOk result (λ found. MatchOption found (all_of (map count_of_number numbers.now) ≡ None)
        (λ counts. all_of (map count_of_number numbers.now) ≡ Some counts.items)) }
{
    let mut counts = Vec::new(alloc);
    for number in numbers {
        if number.is_negative {
            return Ok(None);
        }
        counts.push(number.magnitude as usize)?;
    }
    Ok(Some(counts))
}

// The counts behind a type and a colon.
fn counts_behind(alloc: Global, inner: &[u8]) -> Result<Option<Vec<usize>>, AllocError>
    ensures { IfOk result (λ found. MatchOption found (counts_inside inner.now ≡ None)
        (λ counts. counts_inside inner.now ≡ Some counts.items)) }
{
    let Some((_, text)) = split_at_colon(inner) else {
        return Ok(Some(Vec::new(alloc)));
    };
    match numbers_in(alloc, text)? {
        Some(numbers) => counts_of(alloc, &numbers),
        None => Ok(None),
    }
}

/// The numbers of `array<i32: 1, 0>`, where the text is one. Errors: allocation failure. Cost: its length.
#[doc(hidden)]
pub fn array_of(alloc: Global, text: &[u8]) -> Result<Option<Vec<usize>>, AllocError>
    ensures { IfOk result (λ found. MatchOption found (counts_written text.now ≡ None)
        (λ counts. counts_written text.now ≡ Some counts.items)) }
{
    match text_between(text, b"array<", b">") {
        Some(inner) => counts_behind(alloc, inner),
        None => Ok(None),
    }
}

// The number with one more byte below it.
fn with_byte(number: u64, byte: u64) -> Option<u64>
    ensures { result ≡ with_byte_of number byte }
{
    number.checked_mul(256)?.checked_add(byte)
}

// The number that hexadecimal digits write, the lowest byte first.
fn low_first(digits: &[u8]) -> Option<u64>
    ensures { result ≡ low_first_of digits.now }
{
    match digits {
        [] => Some(0),
        [_] => None,
        [high, low, rest @ ..] => {
            let number = low_first(rest)?;
            with_byte(number, digits_of(&[*high, *low], 16)?)
        }
    }
}

// The bits of an element that these digits write.
fn element(digits: &[u8], width: u32) -> Option<u64>
    ensures { result ≡ element_in width digits.now }
{
    let bits = low_first(digits)?;
    if bits <= largest(width) {
        Some(bits)
    } else {
        None
    }
}

// The bits of so many elements that hexadecimal digits write.
#[tactic(auto, using(crate::proofs::NumberLemmas::elements_begin, crate::proofs::NumberLemmas::elements_more, crate::proofs::NumberLemmas::elements_short, crate::proofs::NumberLemmas::elements_fail, crate::proofs::NumberLemmas::elements_end, crate::proofs::NumberLemmas::elements_over))]
fn hexadecimal(
    alloc: Global,
    digits: &[u8],
    width: u32,
    count: usize,
) -> Result<Option<Vec<u64>>, AllocError>
    ensures { IfOk result (λ found. MatchOption found (elements_in width count digits.now ≡ None)
        (λ cases. elements_in width count digits.now ≡ Some cases.items)) }
{
    let size = (width.min(64) as usize + 7) / 8 * 2;
    let mut cases = Vec::new(alloc);
    let mut rest = digits;
    let mut left = count;
    while left > 0 {
        let Some((first, others)) = rest.split_at_checked(size) else {
            return Ok(None);
        };
        let Some(bits) = element(first, width) else {
            return Ok(None);
        };
        cases.push(bits)?;
        rest = others;
        left -= 1;
    }
    if rest.is_empty() {
        Ok(Some(cases))
    } else {
        Ok(None)
    }
}

// The bits of each of the numbers.
#[tactic(auto, using(crate::proofs::NumberLemmas::reads_none, crate::proofs::NumberLemmas::reads_more, crate::proofs::NumberLemmas::reads_fail, crate::proofs::NumberLemmas::reads_all))]
fn all_bits(
    alloc: Global,
    found: &[SignedNumber],
    width: u32,
) -> Result<Option<Vec<u64>>, AllocError>
    ensures { IfOk result (λ found_bits. MatchOption found_bits (all_of (map (bits_written width) found.now) ≡ None)
        (λ cases. all_of (map (bits_written width) found.now) ≡ Some cases.items)) }
{
    let mut cases = Vec::new(alloc);
    for number in found {
        let Some(bits) = bits_of(width, *number) else {
            return Ok(None);
        };
        cases.push(bits)?;
    }
    Ok(Some(cases))
}

// The bits of so many elements that are all one number.
fn one_for_all(
    alloc: Global,
    text: &[u8],
    width: u32,
    count: usize,
) -> Result<Option<Vec<u64>>, AllocError>
    ensures { IfOk result (λ found. MatchOption found
        (option_map (replicate count) (option_and_then (bits_written width) (signed_written text.now)) ≡ None)
        (λ cases. option_map (replicate count) (option_and_then (bits_written width) (signed_written text.now))
        ≡ Some cases.items)) }
{
    let Some(number) = number_of(text) else {
        return Ok(None);
    };
    let Some(bits) = bits_of(width, number) else {
        return Ok(None);
    };
    let mut cases = Vec::new(alloc);
    cases.resize(count, bits)?;
    Ok(Some(cases))
}

// The bits of the elements of a list.
fn list_elements(alloc: Global, list: &[u8], width: u32) -> Result<Option<Vec<u64>>, AllocError>
    ensures { IfOk result (λ found. MatchOption found
        (option_and_then (λ numbers. all_of (map (bits_written width) numbers)) (numbers_written list.now) ≡ None)
        (λ cases. option_and_then (λ numbers. all_of (map (bits_written width) numbers)) (numbers_written list.now)
        ≡ Some cases.items)) }
{
    match numbers_in(alloc, list)? {
        Some(numbers) => all_bits(alloc, &numbers, width),
        None => Ok(None),
    }
}

// The bits of digits in quotes, of a list in brackets, or of one number for all.
fn elements(
    alloc: Global,
    text: &[u8],
    width: u32,
    count: usize,
) -> Result<Option<Vec<u64>>, AllocError>
    ensures { IfOk result (λ found. MatchOption found (elements_written width count text.now ≡ None)
        (λ cases. elements_written width count text.now ≡ Some cases.items)) }
{
    if let Some(digits) = text_between(text, b"\"0x", b"\"") {
        return if width == 1 {
            Ok(None)
        } else {
            hexadecimal(alloc, digits, width, count)
        };
    }
    match text_between(text, b"[", b"]") {
        Some(list) => list_elements(alloc, list, width),
        None => one_for_all(alloc, text, width, count),
    }
}

// What is before the last colon.
fn before_last_colon(text: &[u8]) -> Option<&[u8]>
    ensures { MatchOption result
        (before_last_colon_of text.now ≡ None)
        (λ start. before_last_colon_of text.now ≡ Some start.now) }
{
    let mut end = text.len();
    while end > 0 {
        end -= 1;
        if text[end] == b':' {
            return Some(&text[..end]);
        }
    }
    None
}

// What is in `dense<..>` before the last colon.
fn dense_inner(text: &[u8]) -> Option<&[u8]>
    ensures { MatchOption result
        (option_and_then (between_texts (codes "dense<") (codes ">")) (before_last_colon_of text.now) ≡ None)
        (λ inner. option_and_then (between_texts (codes "dense<") (codes ">")) (before_last_colon_of text.now)
        ≡ Some inner.now) }
{
    text_between(before_last_colon(text)?, b"dense<", b">")
}

/// The bits of so many elements of `dense<..> : vector<..>`, of this width, where the text is one that has them.
/// Errors: allocation failure. Cost: its length.
#[doc(hidden)]
pub fn dense_of(
    alloc: Global,
    text: &[u8],
    width: u32,
    count: usize,
) -> Result<Option<Vec<u64>>, AllocError>
    ensures { IfOk result (λ found. MatchOption found (dense_written width count text.now ≡ None)
        (λ cases. dense_written width count text.now ≡ Some cases.items)) }
{
    let Some(inner) = dense_inner(text) else {
        return Ok(None);
    };
    match elements(alloc, inner, width, count)? {
        Some(cases) if cases.len() == count => Ok(Some(cases)),
        _ => Ok(None),
    }
}
