//! Broken texts, with line, column and what was expected there, through `plir check` and `plir opt`. `|` stands for the
//! end of a line.
use crate::lines::with_lines;
use crate::optimised::plain;
use pliron_driver_instrument::Timeless;
use pliron_show_commands::{BenchNotation, Outcome, Source, check, opt};
use std::alloc::Global;
use std::process::Abort;

// The command ended with 2, wrote nothing, and reported this place and label.
fn expect_reported(rt: &impl Abort, outcome: &Outcome, text: &str, place: &str, label: &str) {
    assert!(rt; outcome.status == 2, "{text}");
    assert!(rt; outcome.output.is_empty(), "{text}");
    let reported = outcome.report.as_str();
    let mut lines = reported.lines();
    assert!(rt;
        lines.next() == Some("error: unreadable text"),
        "{reported}"
    );
    let second = lines.next().unwrap_or("");
    let found = second.split_once("--> in.plir:").unwrap_or(("", "")).1;
    assert!(rt; found == place, "{text} => {reported}");
    assert!(rt;
        reported.trim_end().ends_with(label),
        "{text} => {reported}"
    );
}

fn expect_broken(rt: &impl Abort, alloc: Global, text: &str, wanted: &str) {
    let lines = with_lines(alloc, text).expect(rt, "memory");
    let source = Source {
        name: "in.plir",
        text: lines.as_bytes(),
    };
    let (place, label) = wanted.split_once(' ').expect(rt, "a place");
    let checked = check::<BenchNotation>(alloc, &source).expect(rt, "memory");
    expect_reported(rt, &checked, text, place, label);
    let optimised = opt::<BenchNotation, _>(alloc, &source, &plain("sccp"), Timeless).expect(
        rt, "memory",
    );
    expect_reported(rt, &optimised, text, place, label);
}

/// Broken texts, and line, column and what was expected there.
static BROKEN: &str = "\
|  fun {|b0():|  ret|} => 2:3 expected `mod` or `func`; is `func` meant?
function {|b0():|  ret|} => 1:1 expected `mod` or `func`; is `func` meant?
ret => 1:1 expected `mod` or `func`
func {|b0():|  ret => 3:6 expected the name of a value, `;` or `}`; the `{` at 1:6 isn't closed
func {|b0(|  ret|} => 3:3 expected the name of a value or `)`; `ret` is reserved for a kind of operations
func {|b0(x|  ret|} => 3:3 expected `,` or `)`
func {|b0(x, 1):|  ret|} => 2:7 expected the name of a value
func {|b0(1):|  ret|} => 2:4 expected the name of a value or `)`
func {|b0(print):|  ret|} => 2:4 expected the name of a value or `)`; `print` is reserved for a kind of operations
func {|b0(x):|  ret x y,|} => 3:10 expected the name of a value, `;` or `}`
func {|b0():|  ret 5|} => 3:7 expected the name of a value, `;` or `}`
func {|b0():|  sink 5;|  ret|} => 3:8 expected the name of a value, `;` or `}`
func {|b0(x)|  ret x|} => 3:3 expected `:`
func {|b0:|  ret|} => 2:3 expected `(` with its arguments
func {|b0():|  br b1();|b1:|  ret|} => 4:3 expected `(` with its arguments
func {|br():|  ret|} => 2:1 expected the name of a block; `br` is reserved for a kind of operations
func {|b0():|  ret;|ret():|  ret|} => 4:1 expected the name of a block; `ret` is reserved for a kind of operations
func {|b0():|  br b1();|print(x):|  ret|} => 4:1 expected the name of a block; `print` is reserved for a kind of operations
func {|  x = const 1;|  ret x|} => 2:3 expected a block, as each `func` and `scope` has one: operations stand in blocks, as `b0(): ..`
func {|  ret|} => 2:3 expected a block, as each `func` and `scope` has one
func {|} => 2:1 expected a block, as each `func` and `scope` has one
func {|b0():|  x = const;|  ret x|} => 3:12 expected a number from -2^63 to 2^63 - 1, without leading zeros
func {|b0():|  x = const 00;|  ret x|} => 3:13 expected a number from -2^63 to 2^63 - 1, without leading zeros
func {|b0():|  x = const -9223372036854775809;|  ret x|} => 3:13 expected a number from -2^63 to 2^63 - 1, without leading zeros
func {|b0():|  x = konst 1;|  ret x|} => 3:7 expected a kind of operations with results: `const`, `add`, `mul`, `div`, `read` or `pair`; is `const` meant?
func {|b0():|  x = cosnt 1;|  ret x|} => 3:7 expected a kind of operations with results: `const`, `add`, `mul`, `div`, `read` or `pair`; is `const` meant?
func {|b0(y):|  x = sub y y;|  ret x|} => 3:7 expected a kind of operations with results: `const`, `add`, `mul`, `div`, `read` or `pair`
func {|b0(x):|  y = add x;|  ret y|} => 3:12 expected the name of a value
func {|b0(x):|  y = add x x x;|  ret y|} => 3:15 expected `;` or `}`
func {|b0(x):|  y = add x ret;|  ret y|} => 3:13 expected the name of a value; `ret` is reserved for a kind of operations
func {|b0(x):|  y = add x z;|  ret y|} => 3:13 expected the name of a value that its `func` defines
func {|b0(x):|  x = const 1;|  ret x|} => 3:3 expected a value's name that its `func` doesn't define before; it is defined at 2:4
mod {|b0():|  func { b0(x): ret x };|b1():|  func { b0(): ret x; b1(y): x, z = pair; z = const 1; ret x }|} => 5:43 expected a value's name that its `func` doesn't define before; it is defined at 5:33
func {|b0(x, x):|  ret x|} => 2:7 expected a value's name that its `func` doesn't define before; it is defined at 2:4
func {|b0():|  add = const 1;|  ret|} => 3:3 expected the name of a value; `add` is reserved for a kind of operations
func {|b0():|  br b1()|} => 3:6 expected the name of a block that its region defines
func {|b0():|  br b0|} => 4:1 expected `(`
func {|b0():|  br b0(;|  ret|} => 3:9 expected the name of a value or `)`
func {|b0():|  br ret();|b1():|  ret|} => 3:6 expected the name of a block; `ret` is reserved for a kind of operations
func {|b0(c):|  cbr c b0(c);|b1():|  ret|} => 3:14 expected the name of a block
func {|b0(c):|  fork c b0;|b1():|  ret|} => 3:12 expected the name of a block
func {|b0():|  br b1();|b1():|  ret;|b0():|  ret|} => 6:1 expected a block's name that its region doesn't define before
func {|b0():|  br b1();|  ret;|b1():|  ret|} => 4:3 expected a block, since no operation follows one with successors
func {|b0():|  x = print x;|  ret|} => 3:7 expected a kind of operations with one result: `const`, `add`, `mul`, `div` or `read`
func {|b0():|  read;|  ret|} => 3:3 expected a kind of operations with no results: `print`, `sink`, `scope`, `box`, `br`, `cbr`, `fork` or `ret`
func {|b0():|  x, y = read;|  ret|} => 3:10 expected a kind of operations with two results: `pair`
mod {|b0():|  func {|  b0():|    ret|  };|  ret|} => 7:3 expected `mod` or `func`, as operations of a `mod` are
mod {|b0(x):|} => 2:4 expected no arguments, as blocks of a `mod` have none
mod {|f = func { b0(): ret }|} => 2:1 expected a block, or `}`: operations stand in blocks, as `b0(): ..`
mod {|b0():|  f = func { b0(): ret }|} => 3:7 expected a kind of operations with one result: `const`, `add`, `mul`, `div` or `read`; this one has none
func {|b0():|  mod { };|  ret|} => 3:3 expected an operation that stands in a `func`, and no `mod` or `func`
func {|b0():|  scope {|  b0():|    ret|  }|  ret|} => 7:3 expected `;` or `}`
func {|b0():|  scope { ret };|  ret|} => 3:11 expected a block, as each `func` and `scope` has one
func {|b0():|  scope 1 { b1(): ret };|  ret|} => 3:9 expected the name of a value or `{`
func {|b0():|  box 1 { };|  ret|} => 3:7 expected `{`
func {|b0():|  ret|}|} => 5:1 expected the end of the text; this `}` closes nothing
func {|b0():|  ret|}|func {|b0():|  ret|} => 5:1 expected the end of the text
func {|b0():|  ret;|} => 4:1 expected an operation or a block
func {|b0():|  x := const 1;|  ret x|} => 3:5 expected `,` or `=`
func {|b0():|  return|} => 3:3 expected a kind of operations; is `ret` meant?
func {|b0(a):|  return a|} => 3:3 expected a kind of operations; is `ret` meant?
func {|b0(a):|  goto b1(a);|b1(x):|  ret|} => 3:3 expected a kind of operations; is `br` meant?
func {|b0(a):|  prnt a;|  ret|} => 3:3 expected a kind of operations; is `print` meant?
func {|b0():|  x = const 1; % one|  ret x|} => 3:16 expected a word, a number or one of `{ } ( ) , : ; =`; `%` begins nothing: a name is a word alone
func {|b0():|  x = const 1; # one|  ret x|} => 3:16 expected a word, a number or one of `{ } ( ) , : ; =`; `#` begins nothing: a comment begins with `//`
func {|b0():|  _x = const 1;|  ret|} => 3:3 expected a word, a number or one of `{ } ( ) , : ; =`; `_` begins nothing: a name begins with a letter
func {|b0():|  x = const 1 + 1;|  ret|} => 3:15 expected a word, a number or one of `{ } ( ) , : ; =`; `+` begins nothing
func {|b0():|\tx = const 1 const 2;|  ret x|} => 3:14 expected `;` or `}`
func {|b0(x):|  ret x| => 4:1 expected the name of a value, `;` or `}`; the `{` at 1:6 isn't closed
func {|b0():|  x = CONST 1;|  ret x|} => 3:7 expected a kind of operations with results: `const`, `add`, `mul`, `div`, `read` or `pair`; is `const` meant?
func {|b0():|  scope {|  b0():|    ret|  };|  ret => 7:6 expected the name of a value, `;` or `}`; the `{` at 1:6 isn't closed
func {|b0():|  scope {|  b0():|    ret => 5:8 expected the name of a value, `;` or `}`; the `{` at 3:9 isn't closed";

#[test]
fn broken_texts(rt: HostRuntime) {
    for case in BROKEN.lines() {
        let (text, wanted) = case.split_once(" => ").expect(&rt, "a case");
        expect_broken(&rt, rt.alloc(), text, wanted);
    }
}
