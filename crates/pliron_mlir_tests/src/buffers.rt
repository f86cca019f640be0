//! Buffers of dots, and what calls left in them.
use pliron_driver_buffers::Status;
use std::alloc::Global;
use std::process::Abort;

/// The text with ends of lines for `|`.
pub fn with_lines(rt: &impl Abort, alloc: Global, text: &str) -> Vec<u8> {
    let mut bytes = Vec::new(alloc);
    for byte in text.as_bytes() {
        bytes
            .push(if *byte == b'|' { b'\n' } else { *byte })
            .expect(rt, "memory");
    }
    bytes
}

/// A buffer of so many dots.
pub fn dots(rt: &impl Abort, alloc: Global, capacity: &str) -> Vec<u8> {
    let capacity = capacity.parse::<usize>().unwrap_or(0).min(1000);
    Vec::from_elem(alloc, b'.', capacity).expect(rt, "memory")
}

/// The status that the call answered, the length that it reported, and what it left in the buffer.
pub fn left_of(
    rt: &impl Abort,
    alloc: Global,
    status: Status,
    needed: usize,
    buffer: &[u8],
) -> String {
    let mut reported = format!(in alloc; "{} {needed} ", status.number()).expect(rt, "memory");
    for byte in buffer {
        let shown = if *byte == b'\n' { b'|' } else { *byte };
        reported.push(char::from(shown)).expect(rt, "memory");
    }
    reported
}
