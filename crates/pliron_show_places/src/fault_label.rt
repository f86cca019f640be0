//! What is said under the place where a text leaves the notation: all that fits there, and the word that was meant.
use crate::kind_words::{kind_word, meant_bench_kind, meant_kind};
use crate::text_tokens::{
    bytes_of, definition_before, first_token, is_followed_by, is_head, open_brace, token_before,
    token_behind,
};
use pliron_dialect_bench::BenchKind;
use pliron_text::{Count, ExpectedItem, Grammar, Span, Tail, TextFault};
use pliron_text_positions::position_of;
use std::alloc::{AllocError, Global};

/// A place of a text, and what is said there.
#[derive(Drop)]
pub struct FaultLabel {
    pub span: Span,
    pub reported: String,
}

// Adds bytes as they are shown: one that can't be printed as its number.
fn push_shown(reported: &mut String, bytes: &[u8]) -> Result<(), AllocError> {
    for byte in bytes {
        let byte = *byte;
        if byte.is_ascii_graphic() {
            reported.push(char::from(byte))?;
        } else {
            write!(reported, "\\x{byte:02x}")?;
        }
    }
    Ok(())
}

// What is said of a word that is reserved.
fn reserved_label(
    alloc: Global,
    span: Span,
    word: &str,
    role: &str,
) -> Result<FaultLabel, AllocError> {
    let reported = format!(in alloc;
        "expected {role}; `{word}` is reserved for a kind of operations"
    )?;
    Ok(FaultLabel { span, reported })
}

// What is said of a word for which another was meant.
fn mistaken_label(
    alloc: Global,
    span: Span,
    word: &str,
    expected: &str,
) -> Result<Option<FaultLabel>, AllocError> {
    let reported = format!(in alloc; "expected {expected}; is `{word}` meant?")?;
    Ok(Some(FaultLabel { span, reported }))
}

/// A place where a text leaves the notation.
#[derive(Clone, Copy)]
struct FaultPlace<'t> {
    text: &'t [u8],
    span: Span,
}

impl<'t> FaultPlace<'t> {
    // The bytes at this place.
    fn bytes(self) -> &'t [u8] {
        bytes_of(self.text, self.span)
    }

    // The token before it.
    fn before(self) -> Option<Span> {
        token_before(self.text, self.span.start)
    }

    // Whether these bytes are the token before it.
    fn is_behind(self, bytes: &[u8]) -> bool {
        match self.before() {
            Some(span) => bytes_of(self.text, span) == bytes,
            None => false,
        }
    }

    // The first token of the operation or the block that it is in.
    fn first(self) -> Option<Span> {
        first_token(self.text, self.span.start)
    }

    // The kind of the operation that it is in, as far as that is written before it.
    fn kind<K: Grammar>(self) -> Option<K> {
        let mut at = self.first()?;
        for _ in 0..6 {
            if at.start >= self.span.start {
                return None;
            }
            if let Some(kind) = K::from_word(bytes_of(self.text, at)) {
                return Some(kind);
            }
            at = token_behind(self.text, at)?;
        }
        None
    }

    // Whether a bracket opens right before it.
    fn opens_list(self) -> bool {
        self.is_behind(b"(")
    }

    // A block's name that is reserved or has no bracket behind it, where a block or an operation was expected to begin.
    fn block_label<K: Grammar>(self, alloc: Global) -> Result<Option<FaultLabel>, AllocError> {
        let Some(first) = self.first() else {
            return Ok(None);
        };
        let name = bytes_of(self.text, first);
        let follower = token_behind(self.text, first);
        let sign = follower.map_or(b"".as_slice(), |next| bytes_of(self.text, next));
        if sign == b"(".as_slice()
            && is_head(self.text, first)
            && let Some(word) = kind_word::<K>(name)
        {
            return Ok(Some(reserved_label(alloc, first, word, "the name of a block")?));
        }
        let is_name = name.first().is_some_and(|byte| byte.is_ascii_alphabetic());
        if sign == b":".as_slice()
            && is_name
            && kind_word::<K>(name).is_none()
            && let Some(span) = follower
            && !is_followed_by(self.text, span, b"=")
        {
            let reported = format!(in alloc; "expected `(` with its arguments")?;
            return Ok(Some(FaultLabel { span, reported }));
        }
        Ok(None)
    }

    // A first word that is read as the name of a result, where a kind was meant.
    fn first_word_label(self, alloc: Global) -> Result<Option<FaultLabel>, AllocError> {
        let Some(first) = self.first() else {
            return Ok(None);
        };
        if first.start >= self.span.start {
            return Ok(None);
        }
        match meant_bench_kind(bytes_of(self.text, first), false) {
            Some(word) => mistaken_label(alloc, first, word, "a kind of operations"),
            None => Ok(None),
        }
    }

    // A reserved word where the name of a value or a block was expected: there, or right before a sign that only
    // follows names.
    fn reserved_label<K: Grammar>(
        self,
        alloc: Global,
        role: &str,
    ) -> Result<Option<FaultLabel>, AllocError> {
        if let Some(word) = kind_word::<K>(self.bytes()) {
            return Ok(Some(reserved_label(alloc, self.span, word, role)?));
        }
        let Some(before) = self.before() else {
            return Ok(None);
        };
        let is_first = self.first() == Some(before);
        match kind_word::<K>(bytes_of(self.text, before)) {
            Some(word) if is_first && matches!(self.bytes(), b"=" | b",") => {
                Ok(Some(reserved_label(alloc, before, word, "the name of a value")?))
            }
            _ => Ok(None),
        }
    }
}

// What is said of a byte that begins nothing.
fn push_stray(place: FaultPlace, reported: &mut String) -> Result<(), AllocError> {
    reported.push_str("expected a word, a number or one of `{ } ( ) , : ; =`; `")?;
    push_shown(reported, place.bytes())?;
    reported.push_str("` begins nothing")?;
    reported.push_str(match place.bytes() {
        b"/" => ": a comment begins with `//`",
        b"_" => ": a name begins with a letter",
        b"%" | b"^" | b"@" | b"$" => ": a name is a word alone",
        b"#" => ": a comment begins with `//`",
        _ => "",
    })
}

// What fits where a kind of `Bench` was expected.
fn fitting_kinds(place: FaultPlace, expected: ExpectedItem) -> Option<&'static str> {
    match expected {
        ExpectedItem::KindWithoutResults => Some(
            "a kind of operations with no results: `print`, `sink`, `scope`, `box`, `br`, `cbr`, `fork` or `ret`",
        ),
        ExpectedItem::KindWithOneResult => Some(
            "a kind of operations with one result: `const`, `add`, `mul`, `div` or `read`",
        ),
        ExpectedItem::KindWithTwoResults => Some("a kind of operations with two results: `pair`"),
        ExpectedItem::Kind if place.is_behind(b"=") => Some(
            "a kind of operations with results: `const`, `add`, `mul`, `div`, `read` or `pair`",
        ),
        ExpectedItem::Kind => Some("an operation or a block"),
        _ => None,
    }
}

// What fits where the names of operands or regions may go on or end.
fn operand_ends<K: Grammar>(place: FaultPlace, kind: K) -> Option<&'static str> {
    match (kind.regions(), place.is_behind(b"}")) {
        (Count::Any, true) => Some("`{`, `;` or `}`"),
        (Count::Any, false) => Some("the name of a value, `{`, `;` or `}`"),
        (_, true) => None,
        (_, false) => Some("the name of a value, `;` or `}`"),
    }
}

// What fits where a list may go on or end, or a region begin.
fn list_ends<K: Grammar>(place: FaultPlace, expected: ExpectedItem) -> Option<&'static str> {
    if expected == ExpectedItem::Value && place.opens_list() {
        return Some("the name of a value or `)`");
    }
    let kind = place.kind::<K>()?;
    match (expected, kind.tail()) {
        (ExpectedItem::SemicolonOrEnd, Tail::AnyOperands) => operand_ends(place, kind),
        (ExpectedItem::OpenBrace, Tail::AnyOperands) => Some("the name of a value or `{`"),
        _ => None,
    }
}

// What fits at the place, in words.
fn push_fitting<K: Grammar>(
    alloc: Global,
    place: FaultPlace,
    expected: ExpectedItem,
    reported: &mut String,
) -> Result<(), AllocError> {
    match list_ends::<K>(place, expected) {
        Some(words) => reported.push_str(words),
        None => reported.push_str(format!(in alloc; "{expected}")?.as_str()),
    }
}

// What else may be said of a token where another was expected.
fn hint_of(place: FaultPlace, expected: ExpectedItem) -> &'static str {
    match (expected, place.bytes()) {
        (ExpectedItem::End, b"}") => "; this `}` closes nothing",
        (ExpectedItem::BlockOfRegion | ExpectedItem::BlockOrEnd, _)
            if is_followed_by(place.text, place.span, b"=") => {
            ": operations stand in blocks, as `b0(): ..`"
        }
        (ExpectedItem::KindWithOneResult, b"func" | b"mod") => "; this one has none",
        _ => "",
    }
}

// Adds where else the fault comes from: the brace that is open still at the end of the text, or the first definition of a
// value that is defined again. Errors: allocation failure. Cost: linear in the text before the place.
fn push_origin(
    place: FaultPlace,
    expected: ExpectedItem,
    reported: &mut String,
) -> Result<(), AllocError> {
    if place.bytes().is_empty()
        && let Some(brace) = open_brace(place.text, place.span.start)
    {
        let at = position_of(place.text, brace);
        return write!(
            reported,
            "; the `{{` at {}:{} isn't closed",
            at.line, at.column
        );
    }
    let begins_names: &[u8] = if expected == ExpectedItem::NewValue {
        b"func"
    } else {
        b""
    };
    if matches!(
        expected,
        ExpectedItem::NewValue | ExpectedItem::NewValueOfText
    )
        && let Some(first) = definition_before(place.text, place.span, begins_names)
    {
        let at = position_of(place.text, first.start);
        return write!(reported, "; it is defined at {}:{}", at.line, at.column);
    }
    Ok(())
}

// The kind that was meant where one was expected, if that is known.
fn kind_label(
    alloc: Global,
    place: FaultPlace,
    expected: ExpectedItem,
) -> Result<Option<FaultLabel>, AllocError> {
    let is_root = expected == ExpectedItem::Root;
    let Some(word) = meant_bench_kind(place.bytes(), is_root) else {
        return Ok(None);
    };
    let words = if is_root {
        "`mod` or `func`"
    } else {
        fitting_kinds(place, expected).unwrap_or("a kind of operations")
    };
    mistaken_label(alloc, place.span, word, words)
}

// A reserved word where the name of a value was expected.
fn value_label<K: Grammar>(
    alloc: Global,
    place: FaultPlace,
) -> Result<Option<FaultLabel>, AllocError> {
    let role = if place.opens_list() {
        "the name of a value or `)`"
    } else {
        "the name of a value"
    };
    place.reserved_label::<K>(alloc, role)
}

// A reserved word where the name of a result was expected: an equals sign follows it.
fn result_label<K: Grammar>(
    alloc: Global,
    place: FaultPlace,
) -> Result<Option<FaultLabel>, AllocError> {
    match kind_word::<K>(place.bytes()) {
        Some(word) if is_followed_by(place.text, place.span, b"=") => {
            let label = reserved_label(alloc, place.span, word, "the name of a value")?;
            Ok(Some(label))
        }
        _ => Ok(None),
    }
}

// Whether a block's name may be what is wrong where this was expected.
fn may_be_block(expected: ExpectedItem) -> bool {
    matches!(
        expected,
        ExpectedItem::BlockOfRegion
            | ExpectedItem::BlockOrEnd
            | ExpectedItem::OperationOrBlock
            | ExpectedItem::OperationOrEnd
            | ExpectedItem::Block
            | ExpectedItem::NewBlock
            | ExpectedItem::BlockAfterBranch
            | ExpectedItem::TopKind
            | ExpectedItem::InnerKind
            | ExpectedItem::CommaOrEquals
            | ExpectedItem::Equals
            | ExpectedItem::Value
            | ExpectedItem::SemicolonOrEnd
            | ExpectedItem::Number
            | ExpectedItem::OpenBrace
    )
}

// What is said where another place or word explains more than what fits would; `None` where none does.
fn telling_label<K: Grammar>(
    alloc: Global,
    place: FaultPlace,
    expected: ExpectedItem,
) -> Result<Option<FaultLabel>, AllocError> {
    if may_be_block(expected)
        && let Some(label) = place.block_label::<K>(alloc)?
    {
        return Ok(Some(label));
    }
    match expected {
        ExpectedItem::Block => place.reserved_label::<K>(alloc, "the name of a block"),
        ExpectedItem::Value => value_label::<K>(alloc, place),
        ExpectedItem::KindWithoutResults => result_label::<K>(alloc, place),
        _ => Ok(None),
    }
}

// The kind of `Bench` that was meant where a kind was expected, or in place of a result; `None` where none was.
fn meant_bench_label(
    alloc: Global,
    place: FaultPlace,
    expected: ExpectedItem,
) -> Result<Option<FaultLabel>, AllocError> {
    match expected {
        ExpectedItem::CommaOrEquals | ExpectedItem::Equals => place.first_word_label(alloc),
        ExpectedItem::Kind | ExpectedItem::Root => kind_label(alloc, place, expected),
        _ => Ok(None),
    }
}

// The kind that was meant where a kind was expected, or in place of a result; `None` where none was.
fn meant_label<K: Grammar>(
    alloc: Global,
    place: FaultPlace,
    expected: ExpectedItem,
) -> Result<Option<FaultLabel>, AllocError> {
    let span = match expected {
        ExpectedItem::CommaOrEquals | ExpectedItem::Equals => place.first().unwrap_or(place.span),
        ExpectedItem::Kind => place.span,
        _ => return Ok(None),
    };
    match meant_kind::<K>(bytes_of(place.text, span)) {
        Some(word) => mistaken_label(alloc, span, word, "a kind of operations"),
        None => Ok(None),
    }
}

// What is said of what fits at the place: these kinds, or what the kinds of operations and their tails leave.
fn fitting_label<K: Grammar>(
    alloc: Global,
    place: FaultPlace,
    expected: ExpectedItem,
    kinds: Option<&'static str>,
) -> Result<FaultLabel, AllocError> {
    let mut reported = String::new(alloc);
    if expected == ExpectedItem::Token {
        push_stray(place, &mut reported)?;
    } else {
        reported.push_str("expected ")?;
        match kinds {
            Some(words) => reported.push_str(words)?,
            None => push_fitting::<K>(alloc, place, expected, &mut reported)?,
        }
        reported.push_str(hint_of(place, expected))?;
        push_origin(place, expected, &mut reported)?;
    }
    Ok(FaultLabel {
        span: place.span,
        reported,
    })
}

/// What is said of the place where a text leaves the bench notation, and where it is said: all that fits there, or the
/// word that was meant or is reserved. Errors: allocation failure. Cost: linear in the text before the place.
pub fn bench_label_of(
    alloc: Global,
    text: &[u8],
    fault: &TextFault,
) -> Result<FaultLabel, AllocError> {
    let place = FaultPlace {
        text,
        span: fault.span,
    };
    let expected = fault.expected;
    if let Some(label) = telling_label::<BenchKind>(alloc, place, expected)? {
        return Ok(label);
    }
    if let Some(label) = meant_bench_label(alloc, place, expected)? {
        return Ok(label);
    }
    fitting_label::<BenchKind>(alloc, place, expected, fitting_kinds(place, expected))
}

/// The same of a text of the dialect of these kinds. Errors: allocation failure. Cost: linear in the text before the
/// place.
pub fn label_of<K: Grammar>(
    alloc: Global,
    text: &[u8],
    fault: &TextFault,
) -> Result<FaultLabel, AllocError> {
    let place = FaultPlace {
        text,
        span: fault.span,
    };
    if let Some(label) = telling_label::<K>(alloc, place, fault.expected)? {
        return Ok(label);
    }
    if let Some(label) = meant_label::<K>(alloc, place, fault.expected)? {
        return Ok(label);
    }
    fitting_label::<K>(alloc, place, fault.expected, None)
}
