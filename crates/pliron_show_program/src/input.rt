//! What the program reads.
ghost use Rattle.std.specs.Prelude.{◌≡◌, ◌≤◌, ◌+◌, length, IfOk};
ghost use Rattle.pliron_show_places.specs.Isolated.{part_alone};

use crate::inner::{is_text, text_around};
use crate::program::Program;
use pliron_show_commands::{TextRange, blank_comments, isolate, operation_range, without_mark};
use std::alloc::{AllocError, Global};
use std::fs;
use std::io::{self, Read};

/// A text that was read, and what a command reads of it.
#[derive(Drop)]
pub struct CommandInput {
    /// All that was read, without a byte order mark.
    whole: Vec<u8>,
    /// The text with blanks for comments, and for all but one operation where one is asked for.
    pub text: Vec<u8>,
    /// Where that one is.
    part: Option<TextRange>,
    /// Where the operation that is asked for is, if it is no text by itself: `text` is then the whole text.
    pub inner: Option<TextRange>,
}

/// The bytes of the file, without a byte order mark, or of standard input where it is called `-`. Errors: those of the file;
/// allocation failure. Cost: linear in it.
pub fn bytes_of(rt: &HostRuntime, name: &str) -> io::Result<Vec<u8>> {
    let bytes = raw_bytes_of(rt, name)?;
    Ok(Vec::from_slice(rt.alloc(), without_mark(&bytes))?)
}

// The bytes of the file, or of standard input where it is called `-`.
fn raw_bytes_of(rt: &HostRuntime, name: &str) -> io::Result<Vec<u8>> {
    if name != "-" {
        return fs::read(rt, name);
    }
    let mut bytes = Vec::new(rt.alloc());
    let _ = rt.stdin().read_to_end(&mut bytes)?;
    Ok(bytes)
}

/// What users call the input. Cost: constant.
pub fn input_name(name: &str) -> &str {
    if name == "-" { "standard input" } else { name }
}

/// The graph in the file. Errors: those of the file; allocation failure. Cost: linear in it.
pub fn read_graph_input(rt: &HostRuntime, name: &str) -> io::Result<CommandInput> {
    let whole = bytes_of(rt, name)?;
    Ok(CommandInput {
        whole: Vec::new(rt.alloc()),
        text: without_returns(rt.alloc(), &whole)?,
        part: None,
        inner: None,
    })
}

// The bytes without the carriage return that some editors put before each end of a line. Errors: allocation failure.
// Cost: linear in them.
fn without_returns(alloc: Global, bytes: &[u8]) -> Result<Vec<u8>, AllocError> {
    let mut text = Vec::with_capacity(alloc, bytes.len())?;
    for at in 0..bytes.len() {
        let ends_line = bytes.get(at.saturating_add(1)) == Some(&b'\n');
        if bytes[at] != b'\r' || !ends_line {
            text.push(bytes[at])?;
        }
    }
    Ok(text)
}

/// The text in the file, or the text by itself in it that the path leads to, where a path is given; where that leads to
/// another operation, the whole text, and where the operation is. `None` where the path leads nowhere.
/// Errors: those of the file; allocation failure. Cost: linear in it.
pub fn read_input<P: Program>(
    rt: &HostRuntime,
    name: &str,
    path: Option<&str>,
) -> io::Result<Option<CommandInput>> {
    let alloc = rt.alloc();
    let whole = bytes_of(rt, name)?;
    let text = blank_comments(alloc, &whole)?;
    let Some(path) = path else {
        return Ok(Some(CommandInput {
            whole,
            text,
            part: None,
            inner: None,
        }));
    };
    let Some(part) = operation_range(&text, path) else {
        return Ok(None);
    };
    let is_alone = is_text::<P>(&text, part);
    let text = if is_alone {
        isolate(alloc, &text, part)?
    } else {
        text
    };
    Ok(Some(CommandInput {
        whole,
        text,
        part: if is_alone { Some(part) } else { None },
        inner: if is_alone { None } else { Some(part) },
    }))
}

// The blanks with which the last line begins. Cost: linear in the text.
fn indentation_of(before: &[u8]) -> &[u8] {
    let start = match before.iter().rposition(|byte| *byte == b'\n') {
        Some(place) => place.saturating_add(1),
        None => 0,
    };
    let line = before.get(start..).unwrap_or(b"");
    let blanks = line
        .iter()
        .position(|byte| *byte != b' ' && *byte != b'\t')
        .unwrap_or(line.len());
    line.get(..blanks).unwrap_or(b"")
}

// Adds the answer, each of whose lines but the first gets these blanks. Errors: allocation failure. Cost: linear in the
// answer, and in the blanks for each line.
fn push_lines(text: &mut Vec<u8>, answer: &[u8], blanks: &[u8]) -> Result<(), AllocError> {
    for byte in answer {
        text.push(*byte)?;
        if *byte == b'\n' {
            text.extend_from_slice(blanks)?;
        }
    }
    Ok(())
}

impl CommandInput {
    /// The input that is all of this text. Errors: allocation failure. Cost: linear in it.
    pub fn of_whole(alloc: Global, whole: Vec<u8>) -> Result<Self, AllocError>
        ensures { IfOk result (λ input. input.text.items ≡ whole.items) }
    {
        let text = Vec::from_slice(alloc, &whole)?;
        Ok(CommandInput {
            whole,
            text,
            part: None,
            inner: None,
        })
    }

    /// The input that is this part of a text alone. Asks that the text has the part. Errors: allocation failure. Cost:
    /// linear in the text.
    pub fn of_part(alloc: Global, whole: Vec<u8>, part: TextRange) -> Result<Self, AllocError>
        requires { part.start + part.len ≤ length whole.items }
        ensures { IfOk result (λ input. input.text.items ≡ part_alone part.start part.len whole.items) }
    {
        let text = isolate(alloc, &whole, part)?;
        Ok(CommandInput {
            whole,
            text,
            part: Some(part),
            inner: None,
        })
    }

    /// The text with blanks for all but the text by itself around the operation that the path leads to. Errors: allocation
    /// failure. Cost: that of `text_around`.
    pub fn around_inner<P: Program>(
        &self,
        alloc: Global,
        path: &str,
    ) -> Result<Vec<u8>, AllocError> {
        match text_around::<P>(&self.text, path) {
            Some((part, _)) if part.start.saturating_add(part.len) <= self.text.len() => {
                isolate(alloc, &self.text, part)
            }
            _ => Vec::from_slice(alloc, &self.text),
        }
    }

    /// The whole text with an answer in the place of the operation that was asked for, if one was, and else the answer.
    /// Lines of the answer are indented as the line is in which that operation begins. Errors: allocation failure. Cost:
    /// linear in both, and in that indentation for each line.
    pub fn around(&self, alloc: Global, answer: &[u8]) -> Result<Vec<u8>, AllocError> {
        let Some(part) = self.part else {
            return Vec::from_slice(alloc, answer);
        };
        let end = part.start.saturating_add(part.len);
        let before = self.whole.get(..part.start).unwrap_or(b"");
        let mut text = Vec::from_slice(alloc, before)?;
        push_lines(
            &mut text,
            answer.strip_suffix(b"\n").unwrap_or(answer),
            indentation_of(before),
        )?;
        text.extend_from_slice(self.whole.get(end..).unwrap_or(b""))?;
        Ok(text)
    }
}
