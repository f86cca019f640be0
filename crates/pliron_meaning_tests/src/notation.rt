//! What the notation reads, and what it prints.
pub mod heads;
mod lines;
mod nesting;
mod refusals;
mod rules;
mod tokens;

use pliron_core::Context;
use pliron_test_cases::bench::{print_text, read_text};
use pliron_test_cases::edges_last;
use std::alloc::Global;
use std::process::Abort;

// The line of the text, where edges are last, or `unreadable`. Ends of lines are `|` in the text.
fn printed_line(rt: &impl Abort, alloc: Global, text: &str) -> String {
    let mut bytes = Vec::new(alloc);
    for byte in text.as_bytes() {
        bytes
            .push(if *byte == b'|' { b'\n' } else { *byte })
            .expect(rt, "memory");
    }
    printed_bytes(rt, alloc, bytes.as_slice())
}

// The line of the bytes, where edges are last, or `unreadable`.
fn printed_bytes(rt: &impl Abort, alloc: Global, text: &[u8]) -> String {
    let mut ctx = Context::new(alloc);
    printed_in(rt, alloc, text, &mut ctx)
}

fn printed_in(rt: &impl Abort, alloc: Global, text: &[u8], ctx: &mut Context) -> String {
    let Some(root) = read_text(alloc, text, ctx).expect(rt, "memory") else {
        return String::from_str(alloc, "unreadable").expect(rt, "memory");
    };
    if !edges_last(root, ctx) {
        return String::from_str(alloc, "edges in mid-block").expect(rt, "memory");
    }
    print_text(alloc, root, ctx).expect(rt, "memory")
}

// The text is printed as this line.
fn check_printed(rt: &impl Abort, alloc: Global, name: &str, text: &str, line: &str) {
    let printed = printed_line(rt, alloc, text);
    assert_eq!(rt; printed.as_str(), line, "{name}");
}
