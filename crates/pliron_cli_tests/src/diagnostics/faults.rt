//! Texts outside the notation, with the place where they leave it. `|` stands for the end of a line.
use crate::diagnostics::lines::with_lines;
use pliron_show_places::{position_of, text_fault};
use pliron_text::find_text_fault;
use std::alloc::Global;
use std::process::Abort;

fn expect_fault(rt: &impl Abort, alloc: Global, text: &str, wanted: &str) {
    let lines = with_lines(alloc, text).expect(rt, "memory");
    let fault = find_text_fault(alloc, lines.as_bytes())
        .expect(rt, "memory")
        .expect(rt, "a fault");
    let place = position_of(lines.as_bytes(), fault.span.start);
    let reported = format!(in alloc; "{}:{} {}", place.line, place.column, fault.expected);
    let reported = reported.expect(rt, "memory");
    assert!(rt; reported.as_str() == wanted, "{text} => {reported}");
}

/// Broken texts, and line, column and what was expected there.
static BROKEN: &str = "\
fun { b0(): ret } => 1:1 `mod` or `func`
 => 1:1 `mod` or `func`
ret => 1:1 `mod` or `func`
func => 1:5 `{`
func b0(): ret } => 1:6 `{`
func { } => 1:8 a block, as each `func` and `scope` has one
func { ret } => 1:8 a block, as each `func` and `scope` has one
mod { ret } => 1:7 a block, or `}`
func { b0() ret } => 1:13 `:`
func { b0(): ret => 1:17 `;` or `}`
func { b0():; ret } => 1:15 the name of a block
func { b0(): x = const 9223372036854775808; ret x } => 1:24 a number from -2^63 to 2^63 - 1, without leading zeros
func { b0(): x = const 007; ret x } => 1:24 a number from -2^63 to 2^63 - 1, without leading zeros
func { b0(): x = const -0; ret x } => 1:24 a number from -2^63 to 2^63 - 1, without leading zeros
func { b0(): x = const y; ret x } => 1:24 a number from -2^63 to 2^63 - 1, without leading zeros
func { b0(): x = add y; ret x } => 1:23 the name of a value
func { b0(): x = const 1; x = const 2; ret x } => 1:27 a value's name that its `func` doesn't define before
func { b0(): br b1(); b1(): ret; b1(): ret } => 1:34 a block's name that its region doesn't define before
func { b0(): br b2() } => 1:17 the name of a block that its region defines
func { b0(): print y; ret } => 1:20 the name of a value that its `func` defines
func {|  b0():|    br b1(x);|  b1(y):|    ret|} => 3:11 the name of a value that its `func` defines
func { b0(): cbr x b9() b0() } => 1:18 the name of a value that its `func` defines
func { b0(): br b1(); ret } => 1:23 a block, since no operation follows one with successors
func { b0(): x, y = const 1; ret x } => 1:21 a kind of operations with two results
func { b0(): const 1; ret } => 1:14 a kind of operations with no results
func { b0(): x = ret } => 1:18 a kind of operations with one result
mod { b0(x): func { b0(): ret } } => 1:10 no arguments, as blocks of a `mod` have none
mod { b0(): ret } => 1:13 `mod` or `func`, as operations of a `mod` are
func { b0(): func { b0(): ret } } => 1:14 an operation that stands in a `func`, and no `mod` or `func`
func { b0(): ret } x => 1:20 the end of the text
func {|b0(): x = const 1 ret x|} => 2:19 `;` or `}`
func { b0(): ret # done|} => 1:18 a word, a number or one of `{ } ( ) , : ; =`
func { b0(: ret } => 1:11 the name of a value
func { b0(x y): ret } => 1:13 `,` or `)`
func { b0(): cbr c b1() } => 1:25 the name of a block
func { b0(): fork x b1 } => 1:24 the name of a block
func {|  b0():|    x = cnst 1;|    ret x|} => 3:9 a kind of operations
func { b0(): x const 1; ret ! } => 1:16 `,` or `=`
func { b0(): aaaaaaaaaaaaaaaaaaaaaaaaaaaaaaaaaaaaaaaaaaaaaaaaaaaaaaaaaaaaaaaaa = const 1; ret } => 1:14 a word of at most 64 bytes";

#[test]
fn broken_texts(rt: HostRuntime) {
    for case in BROKEN.lines() {
        let (text, wanted) = case.split_once(" => ").expect(&rt, "a case");
        expect_fault(&rt, rt.alloc(), text, wanted);
    }
}

/// What is reported of a broken text.
static REPORTED: &str = "error: unreadable text
 --> in.plir:2:19
  |
2 | b0(): x = const 1 ret x
  |                   ^^^ expected `;` or `}`
";

#[test]
fn faults_are_marked(rt: HostRuntime) {
    let alloc = rt.alloc();
    let text = b"func {\nb0(): x = const 1 ret x\n}\n";
    let reported = text_fault(alloc, "in.plir", text)
        .expect(&rt, "memory")
        .expect(&rt, "a fault");
    assert!(rt; reported.as_str() == REPORTED, "{reported}");
    let read = text_fault(alloc, "in.plir", b"func { b0(): ret }").expect(&rt, "memory");
    assert!(rt; read.is_none());
}

#[test]
fn lines_without_faults_are_no_faults(rt: HostRuntime) {
    let read = text_fault(rt.alloc(), "", b"mod { }").expect(&rt, "memory");
    assert!(rt; read.is_none());
}
