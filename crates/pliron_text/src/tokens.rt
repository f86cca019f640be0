//! From bytes to tokens.
ghost use Rattle.std.specs.Prelude.{◌≡◌, ◌+◌, ◌<◌, ◌≤◌, length, IfOk};

use crate::expected::{ExpectedItem, SyntaxFault};
use crate::word_table::{Word, WordTable, WrittenWord, is_letter};
use std::alloc::{AllocError, Global};

/// A name, by its number among the names of the text.
#[derive(Clone, Copy, Debug, PartialEq, Eq)]
pub struct Name {
    pub number: usize,
}

/// A token of a notation whose operations have these kinds.
#[derive(Clone, Copy, Debug, PartialEq, Eq)]
pub enum Token<K> {
    Name(Name),
    Kind(K),
    Number(i64),
    OpenBrace,
    CloseBrace,
    OpenRound,
    CloseRound,
    Comma,
    Colon,
    Semicolon,
    Equals,
}

/// What a text begins with.
#[derive(Clone, Copy)]
enum Lexeme<K> {
    Blank,
    Token(Token<K>),
    /// No token, where this was expected.
    Strange(ExpectedItem),
}

impl<K> Lexeme<K> {
    // The token, if it is one, and else what was expected there.
    fn of(token: Option<Token<K>>, expected: ExpectedItem) -> Self {
        match token {
            Some(token) => Lexeme::Token(token),
            None => Lexeme::Strange(expected),
        }
    }
}

// The token that a byte is by itself.
fn token_of_byte<K>(byte: u8) -> Option<Token<K>> {
    match byte {
        b'{' => Some(Token::OpenBrace),
        b'}' => Some(Token::CloseBrace),
        b'(' => Some(Token::OpenRound),
        b')' => Some(Token::CloseRound),
        b',' => Some(Token::Comma),
        b':' => Some(Token::Colon),
        b';' => Some(Token::Semicolon),
        b'=' => Some(Token::Equals),
        _ => None,
    }
}

/// What a lexeme is, by its first byte.
#[derive(Clone, Copy, PartialEq, Eq)]
enum LexemeForm {
    Blank,
    Word,
    Number,
    /// One byte, which is a token by itself or none.
    Mark,
}

impl LexemeForm {
    fn of(first: u8) -> Self {
        if is_letter(first) {
            return LexemeForm::Word;
        }
        match first {
            b' ' | b'\t' | b'\r' | b'\n' => LexemeForm::Blank,
            b'-' | b'0'..=b'9' => LexemeForm::Number,
            _ => LexemeForm::Mark,
        }
    }
}

// How many bytes the number has that a text begins with: its first byte and the digits behind it.
fn number_len(text: &[u8]) -> usize
    requires { 0 < length text.now }
    ensures some { 0 < result }
    ensures within { result ≤ length text.now }
{
    let mut len: usize = 1;
    while len < text.len() && text[len].is_ascii_digit() {
        len += 1;
    }
    len
}

// The number that a lexeme writes: decimal digits without a leading zero, and no `-0`.
fn number_of(lexeme: &[u8]) -> Option<i64> {
    match lexeme {
        [b'0', _, ..] | [b'-', b'0', ..] | [b'-'] => None,
        [b'-', digits @ ..] => negative_of(digits),
        _ => negative_of(lexeme)?.checked_neg(),
    }
}

// The number below zero that these digits write.
fn negative_of(digits: &[u8]) -> Option<i64> {
    let mut number: i64 = 0;
    for digit in digits {
        let ones = i64::from(digit.wrapping_sub(b'0'));
        number = number.checked_mul(10)?.checked_sub(ones)?;
    }
    Some(number)
}

// What a text begins with, and the rest behind it. Errors: allocation failure.
fn first_lexeme<'t, K: Word>(
    text: &'t [u8],
    words: &mut WordTable<'t, K>,
) -> Result<(Lexeme<K>, &'t [u8]), AllocError>
    requires { 0 < length text.now }
    ensures { IfOk result (λ read. length read.1.now < length text.now) }
{
    match LexemeForm::of(text[0]) {
        LexemeForm::Blank => Ok((Lexeme::Blank, &text[1..])),
        LexemeForm::Word => {
            let written = WrittenWord::first_of(text);
            let after = &text[written.word.len()..];
            let token = words.token(written)?;
            Ok((Lexeme::of(token, ExpectedItem::ShortWord), after))
        }
        LexemeForm::Number => {
            let (lexeme, after) = text.split_at(number_len(text));
            let lexeme = match number_of(lexeme) {
                Some(number) => Lexeme::Token(Token::Number(number)),
                None => Lexeme::Strange(ExpectedItem::Number),
            };
            Ok((lexeme, after))
        }
        LexemeForm::Mark => {
            let token = token_of_byte(text[0]);
            Ok((Lexeme::of(token, ExpectedItem::Token), &text[1..]))
        }
    }
}

/// The tokens of a text up to the first place that is no token, and how many names they have.
#[derive(Drop)]
pub struct Tokens<K> {
    pub tokens: Vec<Token<K>>,
    pub names: usize,
    /// What is behind them, where the text continues.
    pub misread: Option<SyntaxFault>,
}

impl<K: Word> Tokens<K> {
    /// The number of the token that is the kind after so many others, or how many tokens there are. Cost: their number.
    pub fn place_of_kind(&self, before: usize) -> usize {
        let mut met: usize = 0;
        for (place, token) in self.tokens.iter().enumerate() {
            if let Token::Kind(_) = token {
                if met == before {
                    return place;
                }
                met = met.saturating_add(1);
            }
        }
        self.tokens.len()
    }
}

/// The tokens of a text, up to the first place that is no token. Errors: allocation failure. Cost: linear in the
/// text, but for look-ups of words.
#[inline(never)]
pub fn tokenise<K: Word>(alloc: Global, text: &[u8]) -> Result<Tokens<K>, AllocError> {
    let mut words = WordTable::new(alloc, text.len())?;
    let mut tokens = Vec::with_capacity(alloc, text.len() / 2)?;
    let mut misread = None;
    let mut rest = text;
    while !rest.is_empty() {
        let (lexeme, after) = first_lexeme(rest, &mut words)?;
        match lexeme {
            Lexeme::Blank => {}
            Lexeme::Token(token) => tokens.push(token)?,
            Lexeme::Strange(expected) => {
                let token = tokens.len();
                misread = Some(SyntaxFault { token, expected });
                break;
            }
        }
        rest = after;
    }
    Ok(Tokens {
        tokens,
        names: words.names(),
        misread,
    })
}

/// The bytes of a token.
#[derive(Clone, Copy, Debug, Drop, PartialEq, Eq)]
pub struct Span {
    /// How many bytes of the text are before it.
    pub start: usize,
    /// How many bytes it has; none where it is the end of the text.
    pub len: usize,
}

// How many bytes the first lexeme has: a word, a number or one other byte.
fn lexeme_len(text: &[u8]) -> usize
    requires { 0 < length text.now }
    ensures some { 0 < result }
    ensures within { result ≤ length text.now }
{
    match LexemeForm::of(text[0]) {
        LexemeForm::Word => WrittenWord::first_of(text).word.len(),
        LexemeForm::Number => number_len(text),
        LexemeForm::Blank | LexemeForm::Mark => 1,
    }
}

/// The place of the token of this number in a text, or its end where there are no more. Cost: linear in the
/// text before it.
pub fn span_of_token(text: &[u8], number: usize) -> Span
    ensures { result.start + result.len ≤ length text.now }
{
    let mut count: usize = 0;
    let mut rest = text;
    while !rest.is_empty() {
        let len = lexeme_len(rest);
        let (_, after) = rest.split_at(len);
        if LexemeForm::of(rest[0]) != LexemeForm::Blank {
            if count == number {
                return Span {
                    start: text.len() - rest.len(),
                    len,
                };
            }
            count = count.saturating_add(1);
        }
        rest = after;
    }
    Span {
        start: text.len(),
        len: 0,
    }
}
