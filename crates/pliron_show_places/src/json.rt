//! Objects of JSON, each on a line.
use crate::text_parts::TextPart;
use pliron_text_positions::LineAndColumn;
use std::alloc::{AllocError, Global};

/// An object of JSON whose members are written so far.
#[derive(Drop)]
pub struct JsonObject {
    text: String,
}

/// Adds the letters as a string of JSON. Errors: allocation failure. Cost: linear in them.
pub fn push_json_string(text: &mut String, words: &str) -> Result<(), AllocError> {
    text.push('"')?;
    for letter in words.chars() {
        match letter {
            '"' => text.push_str("\\\"")?,
            '\\' => text.push_str("\\\\")?,
            ' '..='~' => text.push(letter)?,
            _ if u32::from(letter) < 0x20 => {
                let code = u32::from(letter);
                write!(text, "\\u{code:04x}")?;
            }
            _ => text.push(letter)?,
        }
    }
    text.push('"')
}

impl JsonObject {
    /// An object without members. Cost: constant.
    pub fn new(alloc: Global) -> Self {
        JsonObject {
            text: String::new(alloc),
        }
    }

    // Begins a member.
    fn key(&mut self, key: &str) -> Result<(), AllocError> {
        self.text
            .push_str(if self.text.is_empty() { "{" } else { "," })?;
        push_json_string(&mut self.text, key)?;
        self.text.push(':')
    }

    /// Adds a member that is a string. Errors: allocation failure. Cost: linear in it.
    pub fn words(&mut self, key: &str, words: &str) -> Result<(), AllocError> {
        self.key(key)?;
        push_json_string(&mut self.text, words)
    }

    /// Adds a member whose value is written in JSON already. Errors: allocation failure. Cost: linear in it.
    pub fn value(&mut self, key: &str, json: &str) -> Result<(), AllocError> {
        self.key(key)?;
        self.text.push_str(json)
    }

    /// Adds a member that is a number. Errors: allocation failure. Cost: constant.
    pub fn number(&mut self, key: &str, number: usize) -> Result<(), AllocError> {
        self.key(key)?;
        write!(self.text, "{number}")
    }

    /// Adds where a part of a text begins, and the place right behind it. Errors: allocation failure. Cost: constant.
    pub fn range(&mut self, start: LineAndColumn, end: LineAndColumn) -> Result<(), AllocError> {
        self.number("line", start.line)?;
        self.number("column", start.column)?;
        self.number("endLine", end.line)?;
        self.number("endColumn", end.column)
    }

    /// Adds where this part of the text begins, and the place right behind it. Errors: allocation failure. Cost: linear
    /// in the part.
    pub fn part(&mut self, text: &[u8], part: TextPart) -> Result<(), AllocError> {
        let start = LineAndColumn {
            line: part.line,
            column: part.column,
        };
        self.range(start, part.end(text))
    }

    /// The object without the end of a line. Errors: allocation failure. Cost: linear in it.
    pub fn finish(self) -> Result<String, AllocError> {
        let mut text = self.text;
        if text.is_empty() {
            text.push_str("{")?;
        }
        text.push_str("}")?;
        Ok(text)
    }

    /// Adds the object as a line. Errors: allocation failure. Cost: linear in it.
    pub fn write_line(self, lines: &mut String) -> Result<(), AllocError> {
        let object = self.finish()?;
        lines.push_str(object.as_str())?;
        lines.push_str("\n")
    }
}
