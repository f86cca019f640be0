//! Tokens, taken one by one.
use crate::expected::ExpectedItem;
use crate::stop::Stop;
use crate::tokens::{Name, Token};
use crate::word_table::Word;

/// The tokens that are left.
#[derive(Drop)]
pub struct Cursor<'t, K> {
    tokens: &'t [Token<K>],
    /// How many were taken.
    taken: usize,
}

impl<'t, K: Word> Cursor<'t, K> {
    /// All these tokens are left. Cost: constant.
    pub fn new(tokens: &'t [Token<K>]) -> Self {
        Cursor { tokens, taken: 0 }
    }

    /// How many tokens are left. Cost: constant.
    pub fn len(&self) -> usize {
        self.tokens.len().saturating_sub(self.taken)
    }

    /// Something other than the next token was expected. Cost: constant.
    pub fn stop(&self, expected: ExpectedItem) -> Stop {
        Stop::at(self.taken, expected)
    }

    /// Something other than the token that was taken last was expected. Cost: constant.
    pub fn stop_before(&self, expected: ExpectedItem) -> Stop {
        Stop::at(self.last(), expected)
    }

    /// The number of the token that was taken last. Cost: constant.
    pub fn last(&self) -> usize {
        self.taken.saturating_sub(1)
    }

    // The next token. Cost: constant.
    fn peek(&self) -> Option<Token<K>> {
        self.tokens.get(self.taken).copied()
    }

    // Skips the next token. Cost: constant.
    fn skip(&mut self) {
        self.taken = self.taken.wrapping_add(1);
    }

    /// Whether the next token is the given one. Cost: constant.
    pub fn is_next(&self, token: Token<K>) -> bool {
        match self.tokens.get(self.taken) {
            Some(next) => *next == token,
            None => false,
        }
    }

    /// Takes the next token if it is the given one. Cost: constant.
    pub fn accept(&mut self, token: Token<K>) -> bool {
        match self.tokens.get(self.taken) {
            Some(next) if *next == token => {
                self.skip();
                true
            }
            _ => false,
        }
    }

    /// Takes the given token. Errors: `Unreadable` where another one or none is left. Cost: constant.
    pub fn expect(&mut self, token: Token<K>, expected: ExpectedItem) -> Result<(), Stop> {
        if self.accept(token) {
            Ok(())
        } else {
            Err(self.stop(expected))
        }
    }

    /// Takes a name. Errors: `Unreadable` where none comes next. Cost: constant.
    pub fn name(&mut self, expected: ExpectedItem) -> Result<Name, Stop> {
        match self.accept_name() {
            Some(name) => Ok(name),
            None => Err(self.stop(expected)),
        }
    }

    /// Takes a number. Errors: `Unreadable` where none comes next. Cost: constant.
    pub fn number(&mut self) -> Result<i64, Stop> {
        match self.peek() {
            Some(Token::Number(number)) => {
                self.skip();
                Ok(number)
            }
            _ => Err(self.stop(ExpectedItem::Number)),
        }
    }

    /// Takes a kind. Errors: `Unreadable` where none comes next. Cost: constant.
    pub fn kind(&mut self, expected: ExpectedItem) -> Result<K, Stop> {
        match self.peek() {
            Some(Token::Kind(kind)) => {
                self.skip();
                Ok(kind)
            }
            _ => Err(self.stop(expected)),
        }
    }

    /// Takes the next token if it is a name. Cost: constant.
    pub fn accept_name(&mut self) -> Option<Name> {
        match self.peek() {
            Some(Token::Name(name)) => {
                self.skip();
                Some(name)
            }
            _ => None,
        }
    }

    /// Whether a block comes next: a name and an opening bracket. Cost: constant.
    pub fn at_block(&self) -> bool {
        match (self.peek(), self.tokens.get(self.taken.wrapping_add(1))) {
            (Some(Token::Name(_)), Some(Token::OpenRound)) => true,
            _ => false,
        }
    }
}
