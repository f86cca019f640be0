//! A place in a text.
ghost use Rattle.std.specs.Prelude.{◌≡◌, ◌+◌, ◌-◌, ◌≤◌, length, slice_get, IfOk};
ghost use Rattle.pliron_text_mlir_syntax.specs.Spans.{bytes_in};
ghost use Rattle.pliron_text_mlir_syntax.specs.declared.fault.Fault.TheVariants.{Expected as ExpectedAt};

use crate::fault::{Expectation, Fault};

/// Some of the text: from the first byte on, up to the end, which is not in it.
#[doc(hidden)]
#[derive(Clone, Copy, Debug, PartialEq, Eq)]
pub struct ByteRange {
    pub start: usize,
    pub end: usize,
}

/// A text that is read up to some byte.
#[doc(hidden)]
#[derive(Clone, Copy)]
pub struct TextCursor<'t> {
    text: &'t [u8],
    at: usize,
}

/// Whether the byte is between what is read. Cost: constant.
#[doc(hidden)]
pub fn is_blank(byte: u8) -> bool {
    matches!(byte, b' ' | b'\t' | b'\r' | b'\n')
}

/// Whether a name may contain the byte. Cost: constant.
#[doc(hidden)]
pub fn is_word(byte: u8) -> bool {
    byte.is_ascii_alphanumeric() || matches!(byte, b'_' | b'$' | b'.' | b'-')
}

impl<'t> TextCursor<'t> {
    /// At the first byte. Cost: constant.
    pub fn new(text: &'t [u8]) -> Self
        ensures text { result.text.now ≡ text.now }
        ensures place { result.at ≡ 0 }
    {
        TextCursor { text, at: 0 }
    }

    /// The place. Cost: constant.
    pub fn place(&self) -> usize
        ensures { result ≡ self.now.at }
    {
        self.at
    }

    /// How many bytes are left. Cost: constant.
    pub fn bytes_left(&self) -> usize
        ensures { result ≡ length self.now.text.now - self.now.at }
    {
        self.text.len().saturating_sub(self.at)
    }

    /// The next byte. Cost: constant.
    pub fn peek(&self) -> Option<u8>
        ensures { result ≡ slice_get self.now.text.now self.now.at }
    {
        self.text.get(self.at).copied()
    }

    /// The byte behind that. Cost: constant.
    pub fn peek_second(&self) -> Option<u8> {
        self.text.get(self.at.saturating_add(1)).copied()
    }

    /// The text of the span, empty where the text has none. Cost: constant.
    pub fn bytes(&self, span: ByteRange) -> &'t [u8]
        ensures { result.now ≡ bytes_in self.now span }
    {
        if span.start <= span.end && span.end <= self.text.len() {
            &self.text[span.start..span.end]
        } else {
            &[]
        }
    }

    /// Skips one byte. Cost: constant.
    pub fn step(&mut self) {
        self.at = self.at.saturating_add(1);
    }

    /// This was expected here. Cost: constant.
    pub fn fault(&self, expected: Expectation) -> Fault
        ensures { result ≡ ExpectedAt self.now.at expected }
    {
        Fault::Expected(self.at, expected)
    }

    /// Skips to the end of the line. Cost: its length.
    pub fn skip_line(&mut self) {
        for _ in 0..self.bytes_left() {
            match self.peek() {
                Some(b'\n') => break,
                _ => self.step(),
            }
        }
    }

    /// Skips blanks and comments. Cost: linear in them.
    pub fn skip(&mut self) {
        for _ in 0..self.bytes_left() {
            match self.peek() {
                Some(byte) if is_blank(byte) => self.step(),
                Some(b'/') if self.peek_second() == Some(b'/') => self.skip_line(),
                _ => break,
            }
        }
    }

    /// Whether this byte is next, after blanks; if so, skips it. Cost: that of the blanks.
    pub fn accept(&mut self, byte: u8) -> bool {
        self.skip();
        if self.peek() == Some(byte) {
            self.step();
            true
        } else {
            false
        }
    }

    /// Skips this byte, after blanks. Errors: another one is there. Cost: that of the blanks.
    pub fn expect(&mut self, byte: u8, expected: Expectation) -> Result<(), Fault> {
        if self.accept(byte) {
            Ok(())
        } else {
            Err(self.fault(expected))
        }
    }

    /// What was read since this place. Cost: constant.
    pub fn since(&self, start: usize) -> ByteRange
        ensures start { result.start ≡ start }
        ensures end { result.end ≡ self.now.at }
    {
        ByteRange {
            start,
            end: self.at,
        }
    }

    /// Scans a name: letters, digits, `_`, `$`, `.`, `-`. Errors: none is there. Cost: its length.
    pub fn word(&mut self, expected: Expectation) -> Result<ByteRange, Fault> {
        let start = self.at;
        for _ in 0..self.bytes_left() {
            match self.peek() {
                Some(b'-') if self.peek_second() == Some(b'>') => break,
                Some(byte) if is_word(byte) => self.step(),
                _ => break,
            }
        }
        if self.at == start {
            Err(self.fault(expected))
        } else {
            Ok(self.since(start))
        }
    }

    /// Scans a string in quotes, in which `\` is before a byte that means itself. Errors: none is there, or it has no
    /// end on its line. Cost: its length.
    pub fn string(&mut self, expected: Expectation) -> Result<ByteRange, Fault> {
        self.expect(b'"', expected)?;
        let start = self.at.saturating_sub(1);
        for _ in 0..self.bytes_left() {
            match self.peek() {
                Some(b'"') => {
                    self.step();
                    return Ok(self.since(start));
                }
                Some(b'\\') => {
                    self.step();
                    self.step();
                }
                Some(b'\n') | None => break,
                Some(_) => self.step(),
            }
        }
        Err(Fault::Expected(start, Expectation::Text))
    }
}
