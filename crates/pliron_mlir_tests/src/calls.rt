//! Calls with buffers of several lengths. Before each call the buffer holds dots; `|` stands for the end of a line.
use crate::buffers::{dots, left_of, with_lines};
use pliron_driver_buffers::{
    BenchNotation, CallFailure, Place, describe_graph_into, find_fault_into, optimise_by_list,
    optimise_into,
};
use std::alloc::Global;
use std::process::Abort;

/// Names, lists of passes, texts and lengths of buffers; then statuses, lengths that are reported, and what the buffers
/// hold.
static OPTIMISED: &str = "\
as long as the answer -- sccp,dce :: func { b0(): a = const 1; b = const 2; c = add a b; ret c } :: 44 => 0 44 \
    func { b0(): v0 = const 3; ret v0 }|changed|
longer than the answer -- sccp,dce :: func { b0(): a = const 1; b = const 2; c = add a b; ret c } :: 47 => 0 44 \
    func { b0(): v0 = const 3; ret v0 }|changed|...
one byte short -- sccp,dce :: func { b0(): a = const 1; b = const 2; c = add a b; ret c } :: 43 => 4 44 \
    ...........................................
no bytes -- sccp,dce :: func { b0(): a = const 1; b = const 2; c = add a b; ret c } :: 0 => 4 44\x20
nested -- nested:dce :: mod { } :: 20 => 0 18 mod { }|unchanged|..
an empty text -- dce ::  :: 3 => 2 0 ...
a text that ends early -- dce :: func :: 3 => 2 0 ...
no such pass -- cse :: func :: 3 => 3 0 ...
another -- canonicalize :: func :: 3 => 3 0 ...
graph is no list -- graph :: 0: :: 3 => 3 0 ...
an empty list --  :: mod { } :: 3 => 3 0 ...
a used value of an unreachable block -- simplify-cfg :: func { b0(): ret v; b1(): v = const 1; br b1() } :: 3 => 1 \
    0 ...";

#[test]
fn optimised(rt: HostRuntime) {
    let alloc = rt.alloc();
    for case in OPTIMISED.lines() {
        let (name, rest) = case.split_once(" -- ").expect(&rt, "a name");
        let (list, rest) = rest.split_once(" :: ").expect(&rt, "a list");
        let (text, rest) = rest.split_once(" :: ").expect(&rt, "a text");
        let (capacity, wanted) = rest.split_once(" => ").expect(&rt, "a length");
        let mut buffer = dots(&rt, alloc, capacity);
        let mut needed = 7;
        let (list, text) = (list.as_bytes(), text.as_bytes());
        let status = optimise_into::<BenchNotation>(alloc, list, text, &mut buffer, &mut needed);
        let left = left_of(&rt, alloc, status, needed, &buffer);
        assert!(&rt; left.as_str() == wanted, "{name}: {left}");
    }
}

#[test]
fn lists_that_are_no_text(rt: HostRuntime) {
    let answer = optimise_by_list::<BenchNotation>(rt.alloc(), &[0xff, 0xfe], b"mod { }");
    assert!(rt; matches!(answer, Err(CallFailure::Arguments)));
}

#[test]
fn texts_that_are_too_long(rt: HostRuntime) {
    let alloc = rt.alloc();
    let mut text = Vec::from_elem(alloc, b' ', 1_048_577).expect(&rt, "memory");
    for (at, byte) in text.iter_mut().enumerate() {
        if let Some(first) = b"mod { }".get(at) {
            *byte = *first;
        }
    }
    let longest = text.get(..1_048_576).unwrap_or(&[]);
    let answer = optimise_by_list::<BenchNotation>(alloc, b"dce", longest).expect(&rt, "an answer");
    assert!(rt; answer.as_slice() == b"mod { }\nunchanged\n".as_slice());
    let answer = optimise_by_list::<BenchNotation>(alloc, b"dce", &text);
    assert!(rt; matches!(answer, Err(CallFailure::Text)));
    let reported = fault_of(&rt, alloc, &text);
    assert_eq!(rt;
        reported.as_str(),
        "0 21 at most 1048576 bytes 1048576+1 1:1048577"
    );
}

/// Names, graphs and lengths of buffers, and what is answered.
static GRAPHS: &str = "\
as long as the answer -- 0: :: 88 => 0 88 post-order: [0]|topological: [0]|numbers: 0=0/0|edges:|components: \
    [0]|pre-sentinels: 0|
one byte short -- 0: :: 87 => 4 88 \
    .......................................................................................
an unreadable graph -- a: :: 3 => 2 0 ...";

#[test]
fn graphs(rt: HostRuntime) {
    let alloc = rt.alloc();
    for case in GRAPHS.lines() {
        let (name, rest) = case.split_once(" -- ").expect(&rt, "a name");
        let (text, rest) = rest.split_once(" :: ").expect(&rt, "a text");
        let (capacity, wanted) = rest.split_once(" => ").expect(&rt, "a length");
        let mut buffer = dots(&rt, alloc, capacity);
        let mut needed = 7;
        let status = describe_graph_into(alloc, text.as_bytes(), &mut buffer, &mut needed);
        let left = left_of(&rt, alloc, status, needed, &buffer);
        assert!(&rt; left.as_str() == wanted, "{name}: {left}");
    }
}

// What is reported about a text, in a buffer that has room for it, with the place.
fn fault_of(rt: &impl Abort, alloc: Global, text: &[u8]) -> String {
    let mut buffer = dots(rt, alloc, "100");
    let mut needed = 7;
    let mut place = Place {
        start: 9,
        len: 9,
        line: 9,
        column: 9,
    };
    let status = find_fault_into(alloc, text, &mut buffer, &mut needed, &mut place);
    let expected = buffer.get(..needed).unwrap_or(&[]);
    let expected = std::str::from_utf8(expected).unwrap_or("no text");
    let (line, column) = (place.line, place.column);
    let reported = format!(in alloc;
        "{} {needed} {expected} {}+{} {line}:{column}",
        status.number(),
        place.start,
        place.len
    );
    reported.expect(rt, "memory")
}

/// Names and broken texts, and what is reported about them: the status, the length of the words, these, and the place.
static BROKEN: &str = "\
nothing broken -- mod { } => 0 0  0+0 0:0
an empty text --  => 0 15 `mod` or `func` 0+0 1:1
no semicolon -- func {|b0(): x = const 1 ret x|} => 0 10 `;` or `}` 25+3 2:19
a value that nothing defines -- func {|  b0():|    br b1(x);|  b1(y):|    ret|} => 0 43 the name of a value that \
    its `func` defines 25+1 3:11";

#[test]
fn faults(rt: HostRuntime) {
    let alloc = rt.alloc();
    for case in BROKEN.lines() {
        let (name, row) = case.split_once(" -- ").expect(&rt, "a name");
        let (text, wanted) = row.split_once(" => ").expect(&rt, "a case");
        let reported = fault_of(&rt, alloc, &with_lines(&rt, alloc, text));
        assert!(&rt; reported.as_str() == wanted, "{name}: {reported}");
    }
}
