//! Streams that fail at a chosen call.
use std::alloc::Global;
use std::io::{self, ErrorKind, Read, Write};

/// Gives at most eight bytes with each read, and fails at the chosen one, counted from 1.
#[derive(Drop)]
pub struct Input<'t> {
    rest: &'t [u8],
    failing: u32,
    reads: u32,
}

impl<'t> Input<'t> {
    pub fn new(text: &'t [u8], failing: u32) -> Self {
        Input {
            rest: text,
            failing,
            reads: 0,
        }
    }

    /// How many bytes weren't read.
    pub fn unread_len(&self) -> usize {
        self.rest.len()
    }
}

impl Read for Input<'_> {
    fn read(&mut self, buf: &mut [u8]) -> io::Result<usize> {
        self.reads = self.reads.saturating_add(1);
        if self.reads == self.failing {
            return Err(io::Error::from(ErrorKind::Other));
        }
        let count = 8.min(self.rest.len()).min(buf.len());
        let (first, rest) = self.rest.split_at(count);
        buf[..count].copy_from_slice(first);
        self.rest = rest;
        Ok(count)
    }
}

/// Takes at most eight bytes with each write, and fails at the chosen one, counted from 1.
#[derive(Drop)]
pub struct Output {
    text: Vec<u8>,
    failing: u32,
    writes: u32,
}

impl Output {
    pub fn new(alloc: Global, failing: u32) -> Self {
        Output {
            text: Vec::new(alloc),
            failing,
            writes: 0,
        }
    }

    pub fn text(&self) -> &[u8] {
        self.text.as_slice()
    }
}

impl Write for Output {
    fn write(&mut self, buf: &[u8]) -> io::Result<usize> {
        self.writes = self.writes.saturating_add(1);
        if self.writes == self.failing {
            return Err(io::Error::from(ErrorKind::Other));
        }
        let count = 8.min(buf.len());
        self.text.extend_from_slice(&buf[..count])?;
        Ok(count)
    }

    fn flush(&mut self) -> io::Result<()> {
        Ok(())
    }
}
