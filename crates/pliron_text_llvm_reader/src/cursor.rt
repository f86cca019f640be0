//! Tokens of a statement, taken one by one.
#![tactic(auto, using(crate::proofs::CursorLemmas::end_within, crate::proofs::CursorLemmas::end_place, crate::proofs::CursorLemmas::next_some))]

ghost use Rattle.std.specs.Prelude.{length};
ghost use Rattle.pliron_text_llvm_reader.specs.TokenLists.{AreTokens, AreTokens-prop};

use crate::words::{is_type_word, is_value_word};
use pliron_text_llvm_syntax::{Bracket, ByteSpan, LlvmToken, TokenKind, bytes_of};

/// What is left of a statement.
#[doc(hidden)]
#[derive(Clone, Copy)]
pub struct StatementCursor<'t> {
    text: &'t [u8],
    /// The tokens that are left.
    tokens: &'t [LlvmToken],
    /// Where the last token ended that was taken.
    end: usize,
    ghost order: { AreTokens end (length text.now) tokens.now } by { AreTokens-prop end (length text.now) tokens.now },
}

impl<'t> StatementCursor<'t> {
    ghost use Rattle.std.specs.Prelude.{◌≡◌, ◌<◌, ◌≤◌, [], drop, slice_get, Some, IsSome};
    ghost use Rattle.std.specs.Bool.{OnTrue, OnFalse};
    ghost use Rattle.pliron_text_llvm_syntax.specs.Tokens.{bytes_of_span};
    ghost use Rattle.pliron_text_llvm_reader.specs.Cursors.{text_of, tokens_of, place_of, first_kind, first_end, first_bytes, first_byte};
    ghost use Rattle.pliron_text_llvm_reader.specs.Cursors.{is_any, is_byte, is_word, is_text, is_open, is_open_round, is_open_square, is_close_round};
    ghost use Rattle.pliron_text_llvm_reader.specs.Cursors.{is_close_square, is_word_next, is_mark_next, is_name_next, is_type_next};
    ghost use Rattle.pliron_text_llvm_reader.specs.Cursors.{is_suffix_next, is_flag_next, is_attribute_next, is_call_attribute_next};
    ghost use Rattle.pliron_text_llvm_reader.specs.Cursors.{depth_behind, behind_tree, end_of_tree, span_between, HasNext, MovesForward, HasTaken};

    /// All of these tokens are left, from this byte on. Asks that they are tokens of the text from there on, in their
    /// order. Cost: constant.
    pub fn new(text: &'t [u8], tokens: &'t [LlvmToken], start: usize) -> Self
        requires { AreTokens start (length text.now) tokens.now }
        ensures text { text_of result ≡ text.now }
        ensures tokens { tokens_of result ≡ tokens.now }
        ensures end { result.end ≡ start }
    {
        StatementCursor {
            text,
            tokens,
            end: start,
        }
    }

    // These tokens are left behind this byte.
    fn behind(&self, tokens: &'t [LlvmToken], end: usize) -> Self
        requires { AreTokens end (length (text_of self.now)) tokens.now }
        ensures text { text_of result ≡ text_of self.now }
        ensures tokens { tokens_of result ≡ tokens.now }
        ensures end { result.end ≡ end }
    {
        StatementCursor {
            text: self.text,
            tokens,
            end,
        }
    }

    /// Whether one is left. Cost: constant.
    pub fn at_any(&self) -> bool
        ensures exact { result ≡ is_any (tokens_of self.now) }
        ensures next { OnTrue result (HasNext self.now) }
        ensures tokens { OnTrue result (0 < length (tokens_of self.now)) }
        ensures no_tokens { OnFalse result (tokens_of self.now ≡ []) }
    {
        !self.tokens.is_empty()
    }

    // What the next one is.
    fn kind(&self) -> Option<TokenKind>
        ensures kind { result ≡ first_kind (tokens_of self.now) }
        ensures next { IsSome result → HasNext self.now }
    {
        match self.tokens {
            [token, ..] => Some(token.kind),
            [] => None,
        }
    }

    /// The bytes of the next one, none at the end. Cost: constant.
    #[tactic(auto, using(crate::proofs::CursorLemmas::first_some, crate::proofs::CursorLemmas::first_within))]
    pub fn bytes(&self) -> &'t [u8]
        ensures { result.now ≡ first_bytes (text_of self.now) (tokens_of self.now) }
    {
        match self.tokens {
            [token, ..] => bytes_of(self.text, token.span),
            [] => &[],
        }
    }

    /// Where the next one begins, or the end of the text. Cost: constant.
    pub fn place(&self) -> usize
        ensures place { result ≡ place_of self.now }
        ensures behind { self.now.end ≤ result }
    {
        match self.tokens {
            [token, ..] => token.span.start,
            [] => self.text.len(),
        }
    }

    /// The first byte of the next one, none at the end. Cost: constant.
    pub fn first_byte(&self) -> Option<u8>
        ensures { result ≡ first_byte (text_of self.now) (tokens_of self.now) }
    {
        self.text.get(self.place()).copied()
    }

    /// Where the last one ended that was taken. Cost: constant.
    pub fn end(&self) -> usize
        ensures { result ≡ self.now.end }
    {
        self.end
    }

    /// What was taken since this place. Cost: constant.
    pub fn since(&self, start: usize) -> ByteSpan
        ensures { result ≡ span_between start self.now.end }
    {
        ByteSpan {
            start,
            end: self.end,
        }
    }

    /// Takes the next one alone, if one is left. Cost: constant.
    #[tactic(auto, using(crate::proofs::CursorLemmas::end_place, crate::proofs::CursorLemmas::first_place, crate::proofs::CursorLemmas::first_some, crate::proofs::CursorLemmas::first_within, crate::proofs::CursorLemmas::first_text, crate::proofs::CursorLemmas::first_ends))]
    pub fn skip_token(&mut self)
        ensures forward { MovesForward self.old self.new }
        ensures taken { HasNext self.old → HasTaken self.old self.new }
        ensures tokens { tokens_of self.new ≡ drop 1 (tokens_of self.old) }
        ensures end { self.new.end ≡ first_end (tokens_of self.old) self.old.end }
        ensures bytes { HasNext self.old
            → bytes_of_span (text_of self.old) (span_between (place_of self.old) self.new.end)
            ≡ first_bytes (text_of self.old) (tokens_of self.old) }
    {
        if let [token, rest @ ..] = self.tokens {
            *self = self.behind(rest, token.span.end);
        }
    }

    // How many brackets are open behind the next one, where so many are open before it.
    #[tactic(auto, using(crate::proofs::CursorLemmas::end_within, crate::proofs::CursorLemmas::end_place, crate::proofs::CursorLemmas::end_first, crate::proofs::CursorLemmas::next_ends))]
    fn depth_behind(&self, depth: usize) -> usize
        requires { depth ≤ self.now.end }
        ensures exact { result ≡ depth_behind (first_kind (tokens_of self.now)) depth }
        ensures few { result ≤ first_end (tokens_of self.now) self.now.end }
    {
        match self.kind() {
            Some(TokenKind::Open(_)) => depth + 1,
            Some(TokenKind::Close(_)) => depth.saturating_sub(1),
            _ => depth,
        }
    }

    /// Takes the next one, and where it opens a bracket all up to the end of the bracket. Cost: linear in it.
    #[tactic(auto, using(crate::proofs::CursorLemmas::bracket_steps))]
    pub fn skip_tree(&mut self)
        ensures forward { MovesForward self.old self.new }
        ensures taken { HasNext self.old → HasTaken self.old self.new }
        ensures tokens { tokens_of self.new ≡ behind_tree (tokens_of self.old) }
        ensures end { self.new.end ≡ end_of_tree self.old.end (tokens_of self.old) }
    {
        let mut depth = self.depth_behind(0);
        self.skip_token();
        while depth > 0 && self.at_any() {
            depth = self.depth_behind(depth);
            self.skip_token();
        }
    }

    /// Whether a word is next. Cost: constant.
    pub fn at_any_word(&self) -> bool
        ensures exact { result ≡ is_word (first_kind (tokens_of self.now)) }
        ensures next { OnTrue result (HasNext self.now) }
    {
        matches!(self.kind(), Some(TokenKind::Word))
    }

    /// Whether this word is next. Cost: linear in it.
    pub fn at_word(&self, word: &[u8]) -> bool
        ensures exact { result ≡ is_word_next (text_of self.now) (tokens_of self.now) word.now }
        ensures next { OnTrue result (HasNext self.now) }
    {
        self.at_any_word() && self.bytes() == word
    }

    /// Whether a string is next. Cost: constant.
    pub fn at_text(&self) -> bool
        ensures exact { result ≡ is_text (first_kind (tokens_of self.now)) }
        ensures next { OnTrue result (HasNext self.now) }
    {
        matches!(self.kind(), Some(TokenKind::Text))
    }

    // Whether the next one begins with this byte.
    fn begins_with(&self, byte: u8) -> bool
        ensures { result ≡ is_byte (first_byte (text_of self.now) (tokens_of self.now)) byte }
    {
        match self.first_byte() {
            Some(first) => first == byte,
            None => false,
        }
    }

    /// Whether this mark is next. Cost: constant.
    pub fn at_mark(&self, mark: u8) -> bool
        ensures exact { result ≡ is_mark_next (text_of self.now) (tokens_of self.now) mark }
        ensures next { OnTrue result (HasNext self.now) }
    {
        match self.kind() {
            Some(TokenKind::Mark) => self.begins_with(mark),
            _ => false,
        }
    }

    /// Whether a name with this sign is next. Cost: constant.
    pub fn at_name(&self, sign: u8) -> bool
        ensures exact { result ≡ is_name_next (text_of self.now) (tokens_of self.now) sign }
        ensures next { OnTrue result (HasNext self.now) }
        ensures sign { OnTrue result (slice_get (text_of self.now) (place_of self.now) ≡ Some sign) }
    {
        match self.kind() {
            Some(TokenKind::Name) => self.begins_with(sign),
            _ => false,
        }
    }

    /// Whether a bracket opens next. Cost: constant.
    pub fn at_open(&self) -> bool
        ensures exact { result ≡ is_open (first_kind (tokens_of self.now)) }
        ensures next { OnTrue result (HasNext self.now) }
    {
        matches!(self.kind(), Some(TokenKind::Open(_)))
    }

    /// Whether a round bracket opens next. Cost: constant.
    pub fn at_open_round(&self) -> bool
        ensures exact { result ≡ is_open_round (first_kind (tokens_of self.now)) }
        ensures next { OnTrue result (HasNext self.now) }
    {
        matches!(self.kind(), Some(TokenKind::Open(Bracket::Round)))
    }

    /// Whether a square bracket opens next. Cost: constant.
    pub fn at_open_square(&self) -> bool
        ensures exact { result ≡ is_open_square (first_kind (tokens_of self.now)) }
        ensures next { OnTrue result (HasNext self.now) }
    {
        matches!(self.kind(), Some(TokenKind::Open(Bracket::Square)))
    }

    /// Whether a round bracket closes next. Cost: constant.
    pub fn at_close_round(&self) -> bool
        ensures exact { result ≡ is_close_round (first_kind (tokens_of self.now)) }
        ensures next { OnTrue result (HasNext self.now) }
    {
        matches!(self.kind(), Some(TokenKind::Close(Bracket::Round)))
    }

    /// Whether a square bracket closes next. Cost: constant.
    pub fn at_close_square(&self) -> bool
        ensures exact { result ≡ is_close_square (first_kind (tokens_of self.now)) }
        ensures next { OnTrue result (HasNext self.now) }
    {
        matches!(self.kind(), Some(TokenKind::Close(Bracket::Square)))
    }

    /// Whether a type is next. Cost: that of the word.
    pub fn at_type(&self) -> bool
        ensures exact { result ≡ is_type_next (text_of self.now) (tokens_of self.now) }
        ensures next { OnTrue result (HasNext self.now) }
    {
        (self.at_any_word() && is_type_word(self.bytes()))
            || (self.at_open() && !self.at_open_round())
            || self.at_name(b'%')
    }

    /// Whether `*`, `addrspace`, its bracket, or the parameters of a function's type are next. Cost: constant.
    pub fn at_suffix(&self) -> bool
        ensures exact { result ≡ is_suffix_next (text_of self.now) (tokens_of self.now) }
        ensures next { OnTrue result (HasNext self.now) }
    {
        self.at_mark(b'*') || self.at_open_round() || self.at_word(b"addrspace")
    }

    /// Whether a word that is no type is next, or a string. Cost: that of the word.
    pub fn at_flag(&self) -> bool
        ensures exact { result ≡ is_flag_next (text_of self.now) (tokens_of self.now) }
        ensures next { OnTrue result (HasNext self.now) }
    {
        (self.at_any_word() && !is_type_word(self.bytes())) || self.at_text()
    }

    /// Whether an attribute between a type and its value is next. Cost: that of the word.
    pub fn at_attribute(&self) -> bool
        ensures exact { result ≡ is_attribute_next (text_of self.now) (tokens_of self.now) }
        ensures next { OnTrue result (HasNext self.now) }
    {
        (self.at_any_word() && !is_value_word(self.bytes()))
            || (self.at_text() && self.begins_with(b'"'))
    }

    /// Whether an attribute of a call is next. Cost: constant.
    pub fn at_call_attribute(&self) -> bool
        ensures exact { result ≡ is_call_attribute_next (text_of self.now) (tokens_of self.now) }
        ensures next { OnTrue result (HasNext self.now) }
    {
        (self.at_any_word() && self.bytes() != b"to".as_slice())
            || self.at_name(b'#')
            || self.at_text()
            || self.at_open_round()
    }

    /// What is left behind the next one. Cost: constant.
    pub fn behind_next(&self) -> Self
        ensures text { text_of result ≡ text_of self.now }
        ensures tokens { tokens_of result ≡ drop 1 (tokens_of self.now) }
    {
        let mut behind = *self;
        behind.skip_token();
        behind
    }
}
