//! Bodies as they are read: lines, blocks, and where reading stops.
use pliron_text_llvm_reader::{BodyStop, FunctionBody, read_body};
use pliron_text_llvm_syntax::ByteSpan;
use std::alloc::Global;
use std::process::Abort;

/// Bodies, in which `/` ends a line, and what is read: how many lines, holes and blocks there are, or where and why reading
/// stops.
static BODIES: &str = "\
one block -- ret void / => 1 lines, 0 holes, 1 blocks
two blocks -- br label %a /a: / %x = add i32 1, %y / ret i32 %x / => 4 lines, 4 holes, 2 blocks
a branch -- br i1 %c, label %a, label %b /a: / ret void /b: / unreachable / => 5 lines, 3 holes, 3 blocks
no block -- => a block at 18
no end -- %x = add i32 1, 2 / => a terminator at 37
an end that a label cuts off -- %x = add i32 1, 2 /a: / ret void / => a terminator at 37
a label at the end -- ret void /a: / => a terminator at 32
an unknown word -- br label %a /a: / frobnicate i32 1 / ret void / => at 36: an unknown word
a broken word -- br label %a /a: / ~ / ret void / => broken";

// What was read.
fn counted(rt: &impl Abort, alloc: Global, body: &FunctionBody) -> String {
    let lines = body.lines.len();
    let holes = body.holes.len();
    let blocks = body.blocks.len();
    format!(in alloc; "{lines} lines, {holes} holes, {blocks} blocks").expect(rt, "memory")
}

// Where and why reading stopped.
fn stopped(rt: &impl Abort, alloc: Global, stop: BodyStop) -> String {
    match stop {
        BodyStop::Kept(place, reason) => format!(in alloc; "at {place}: {reason}").expect(
            rt, "memory",
        ),
        BodyStop::Broken(_) => format!(in alloc; "broken").expect(rt, "memory"),
        BodyStop::NoBlock(place) => format!(in alloc; "a block at {place}").expect(rt, "memory"),
        BodyStop::NoTerminator(place) => format!(in alloc; "a terminator at {place}").expect(
            rt, "memory",
        ),
    }
}

// What the body is read as.
fn reading_of(rt: &impl Abort, alloc: Global, body: &str) -> String {
    let mut text = String::new(alloc);
    text.push_str("define void @f() {").expect(rt, "memory");
    for letter in body.chars() {
        text.push(if letter == '/' { '\n' } else { letter })
            .expect(rt, "memory");
    }
    let end = text.len();
    text.push('}').expect(rt, "memory");
    let inside = ByteSpan { start: 18, end };
    assert!(rt; inside.start <= inside.end, "a body");
    match read_body(alloc, text.as_bytes(), inside) {
        Ok(body) => counted(rt, alloc, &body),
        Err(stop) => stopped(rt, alloc, stop),
    }
}

#[test]
fn reads_bodies(rt: HostRuntime) {
    for case in BODIES.lines() {
        let (name, row) = case.split_once(" -- ").expect(&rt, "a name");
        let (body, wanted) = row.split_once("=> ").expect(&rt, "a case");
        let found = reading_of(&rt, rt.alloc(), body.trim_end_matches(' '));
        assert!(rt; found.as_str() == wanted.trim_end(), "{name}: {found}");
    }
}
