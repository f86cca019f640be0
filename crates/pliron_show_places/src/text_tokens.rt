//! The words and signs of a text, as far as labels ask for them: the text need not be one of the notation.
use pliron_text::Span;

// Whether the byte may be in a word.
fn is_word_byte(byte: u8) -> bool {
    byte.is_ascii_alphanumeric() || byte == b'_'
}

// The bytes of a part of the text, as far as the text has it. Cost: constant.
pub(crate) fn bytes_of(text: &[u8], span: Span) -> &[u8] {
    let rest = text.get(span.start..).unwrap_or(b"");
    rest.get(..span.len).unwrap_or(rest)
}

// The first word or other byte from here on, if there is one. Cost: linear in the text up to its end.
pub(crate) fn token_from(text: &[u8], start: usize) -> Option<Span> {
    let rest = text.get(start..)?;
    let gap = rest.iter().position(|byte| !byte.is_ascii_whitespace())?;
    let found = rest.get(gap..)?;
    let word = found
        .iter()
        .position(|byte| !is_word_byte(*byte))
        .unwrap_or(found.len());
    Some(Span {
        start: start.saturating_add(gap),
        len: word.max(1),
    })
}

// The last word or other byte before here, if there is one. Cost: linear in what is between.
pub(crate) fn token_before(text: &[u8], end: usize) -> Option<Span> {
    let rest = text.get(..end)?;
    let last = rest.iter().rposition(|byte| !byte.is_ascii_whitespace())?;
    let until = rest.get(..last.saturating_add(1))?;
    let before = match until.iter().rposition(|byte| !is_word_byte(*byte)) {
        Some(place) => place.saturating_add(1),
        None => 0,
    };
    let start = before.min(last);
    Some(Span {
        start,
        len: last.saturating_add(1).saturating_sub(start),
    })
}

// The token behind a part of the text. Cost: that of `token_from`.
pub(crate) fn token_behind(text: &[u8], span: Span) -> Option<Span> {
    token_from(text, span.start.saturating_add(span.len))
}

// Whether these bytes are the token behind a part of the text. Cost: that of `token_from`.
pub(crate) fn is_followed_by(text: &[u8], span: Span, bytes: &[u8]) -> bool {
    match token_behind(text, span) {
        Some(next) => bytes_of(text, next) == bytes,
        None => false,
    }
}

// Whether an operation or a block begins behind this byte.
fn is_parting(byte: u8) -> bool {
    matches!(byte, b';' | b'{' | b'}' | b':')
}

// The first token of what the byte after so many is in: behind the last brace, semicolon or colon. Cost: linear in the
// text before it.
pub(crate) fn first_token(text: &[u8], at: usize) -> Option<Span> {
    let before = text.get(..at)?;
    let start = match before.iter().rposition(|byte| is_parting(*byte)) {
        Some(place) => place.saturating_add(1),
        None => 0,
    };
    token_from(text, start)
}

// The last brace before here that is open still. Cost: linear in the text before it.
pub(crate) fn open_brace(text: &[u8], end: usize) -> Option<usize> {
    let before = text.get(..end)?;
    let mut closed: usize = 0;
    before.iter().rposition(|byte| {
        let is_open = *byte == b'{' && closed == 0;
        match *byte {
            b'}' => closed = closed.saturating_add(1),
            b'{' => closed = closed.saturating_sub(1),
            _ => {}
        }
        is_open
    })
}

// Whether the head of a block begins with this word: a colon follows its brackets. Cost: linear in the head.
pub(crate) fn is_head(text: &[u8], span: Span) -> bool {
    let rest = text
        .get(span.start.saturating_add(span.len)..)
        .unwrap_or(b"");
    let Some(closing) = rest.iter().position(|byte| *byte == b')') else {
        return false;
    };
    match token_from(rest, closing.saturating_add(1)) {
        Some(next) => bytes_of(rest, next) == b":".as_slice(),
        None => false,
    }
}

// Whether the word is the name of a result: an equals sign follows it, or one more name and such a sign.
fn is_result(text: &[u8], word: Span) -> bool {
    let Some(next) = token_behind(text, word) else {
        return false;
    };
    match bytes_of(text, next) {
        b"=" => true,
        b"," => token_behind(text, next).is_some_and(|second| is_followed_by(text, second, b"=")),
        _ => false,
    }
}

/// A walk over the words of a text, for the place where a value of this name is defined.
#[derive(Clone, Copy)]
struct DefinitionWalk<'t> {
    text: &'t [u8],
    name: &'t [u8],
    /// The word at which names begin anew; empty where there is none.
    begins_names: &'t [u8],
    /// The word before.
    before: Option<Span>,
    /// Whether the words are arguments in the head of a block.
    is_in_head: bool,
    /// The definition since names began anew.
    found: Option<Span>,
}

impl DefinitionWalk<'_> {
    // Goes over the next word.
    fn take(&mut self, token: Span) {
        match bytes_of(self.text, token) {
            word if word == self.begins_names => self.found = None,
            b"(" => self.is_in_head = self.before.is_some_and(|word| is_head(self.text, word)),
            b")" => self.is_in_head = false,
            word if word == self.name && self.found.is_none() => {
                if self.is_in_head || is_result(self.text, token) {
                    self.found = Some(token);
                }
            }
            _ => {}
        }
        self.before = Some(token);
    }
}

// Where the value that this word names is defined before it, behind the last word at which names begin anew, if it is.
// Cost: linear in the text before it.
pub(crate) fn definition_before<'t>(
    text: &'t [u8],
    word: Span,
    begins_names: &'t [u8],
) -> Option<Span> {
    let mut walk = DefinitionWalk {
        text,
        name: bytes_of(text, word),
        begins_names,
        before: None,
        is_in_head: false,
        found: None,
    };
    let mut at = 0;
    for _ in 0..text.len() {
        let token = token_from(text, at)?;
        if token.start >= word.start {
            return walk.found;
        }
        walk.take(token);
        at = token.start.saturating_add(token.len);
    }
    walk.found
}
