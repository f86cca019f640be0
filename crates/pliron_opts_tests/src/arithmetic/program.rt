//! The program `arithmetic_opt` on texts, by the library call that its `main` is made of. Each answer is worked
//! by hand.
use crate::expect::{expect_bytes, expect_text};
use pliron_dialect_arithmetic::ArithmeticKind;
use pliron_driver::{KindNotation, run_optimiser};
use std::alloc::Global;
use std::process::Abort;

// A name, a list, a text, and how the program ends: its status, and what it writes, with the ends of lines as `|`. With
// status 0 it writes an answer, else a line on what is wrong.
static CASES: &str = "\
a product and its negative -- sccp,dce :: function { b0(): a = lit 6; b = lit 7; p = mul a b; n = neg p; return n \
    } => 0 function { b0(): v0 = lit -42; return v0 }|changed|
less, of two numbers -- sccp :: function { b0(): a = lit 2; b = lit 3; l = less a b; return l } => 0 function { \
    b0(): v0 = lit 2; v1 = lit 3; v2 = lit 1; v3 = less v0 v1; return v2 }|changed|
a constant argument -- sccp,dce :: function { b0(): a = lit 4; jump b1(a); b1(p): return p } => 0 function { b0(): \
    jump b1(); b1(): v0 = lit 4; return v0 }|changed|
a branch on 0 -- sccp,dce :: function { b0(): z = lit 0; a = lit 8; b = lit 9; branch z t(a) f(b); t(p): return p; \
    f(q): return q } => 0 function { b0(): v0 = lit 0; v1 = lit 8; branch v0 b1(v1) b2(); b1(v2): return v2; b2(): \
    v3 = lit 9; return v3 }|changed|
an unknown operand -- sccp,dce :: function { b0(x): two = lit 2; p = mul x two; l = less p x; return l } => 0 \
    function { b0(v0): v1 = lit 2; v2 = mul v0 v1; v3 = less v2 v0; return v3 }|unchanged|
an unused negative -- dce :: function { b0(x): a = lit 6; n = neg a; return x } => 0 function { b0(v0): return v0 \
    }|changed|
nothing to do -- sccp,simplify-cfg,dce :: function { b0(x): s = add x x; return s } => 0 function { b0(v0): v1 = \
    add v0 v0; return v1 }|unchanged|
sums and products past the greatest -- sccp,dce :: function { b0(): a = lit 9223372036854775807; b = lit 2; s = \
    add a b; p = mul a b; return s p } => 0 function { b0(): v0 = lit -9223372036854775807; v1 = lit -2; return v0 \
    v1 }|changed|
the negative of the least -- sccp,dce :: function { b0(): m = lit -9223372036854775808; n = neg m; l = less n m; \
    return n l } => 0 function { b0(): v0 = lit -9223372036854775808; v1 = lit 0; return v0 v1 }|changed|
a branch on 0, taken away -- simplify-cfg :: function { b0(x): c = lit 0; branch c t(x) f(); t(y): return y; f(): \
    return c } => 0 function { b0(v0): v1 = lit 0; return v1 }|changed|
a branch on less -- sccp,simplify-cfg,dce :: function { b0(x): a = lit 1; b = lit 2; c = less a b; branch c t(b) \
    d(x); t(y): z = mul y b; jump d(z); d(r): return r } => 0 function { b0(v0): v1 = lit 4; return v1 }|changed|
an if with constants -- sccp,dce :: function { b0(x): c = lit 1; a = lit 20; b = lit 22; s = add a b; r = if c s { \
    t(y): m = mul a b; n = add m y; return n } { f(z): n2 = neg z; return n2 }; return r } => 0 function { b0(v0): \
    v1 = lit 1; v2 = lit 42; v3 = if v1 v2 { b0(v4): v5 = lit 440; v6 = add v5 v4; return v6 } { b0(v7): v8 = neg \
    v7; return v8 }; return v3 }|changed|
an if with blocks that merge and blocks that go -- simplify-cfg :: function { b0(c): if c { t(): jump u(); u(): \
    return } { f(): return; g(): return }; return } => 0 function { b0(v0): if v0 { b0(): return } { b0(): return \
    }; return }|changed|
a while that counts down -- sccp,dce :: function { b0(n): r = while n { w(i): m = lit -1; k = mul m m; d = neg k; \
    j = add i d; return j j }; return r } => 0 function { b0(v0): v1 = while v0 { b0(v2): v3 = lit -1; v4 = add v2 \
    v3; return v4 v4 }; return v1 }|changed|
a while that goes round -- dce :: function { b0(n): r = while n { w(i): return i i }; return n } => 0 function { \
    b0(v0): v1 = while v0 { b0(v2): return v2 v2 }; return v0 }|unchanged|
functions inside -- nested:sccp,dce :: function { b0(): function { b0(): a = lit 1; b = lit 2; s = add a b; return \
    s }; z = lit 0; return } => 0 function { b0(): function { b0(): v0 = lit 3; return v0 }; v1 = lit 0; return \
    }|changed|
rounds on functions inside -- repeat:8:nested:simplify-cfg :: function { b0(): function { a(): c = lit 1; jump \
    b(c); b(p): branch p d() e(); d(): return p; e(): return } } => 0 function { b0(): function { b0(): v0 = lit \
    1; return v0 } }|changed|
one round on functions inside -- repeat:1:nested:simplify-cfg :: function { b0(): function { a(): c = lit 1; jump \
    b(c); b(p): branch p d() e(); d(): return p; e(): return } } => 0 function { b0(): function { b0(): v0 = lit \
    1; branch v0 b1() b2(); b1(): return v0; b2(): return } }|changed|
rounds without functions inside -- repeat:8:nested:sccp,dce :: function { b0(): return } => 0 function { b0(): \
    return }|unchanged|
a graph -- graph :: 0: 1|1:| => 0 post-order: [1 0]|topological: [0 1]|numbers: 0=0/1 1=1/0|edges: \
    0>1:Forward|components: [0] [1]|pre-sentinels: 1|
a used value of an unreachable block -- simplify-cfg :: function { b0(): return v; b1(): v = lit 1; jump b1() } => \
    1 refused: a value of an unreachable block is used|
a text that ends early -- sccp :: function { b0(): return => 2 unreadable text|
a word of no operation -- dce :: function { b0(): a = sub a a; return } => 2 unreadable text|
too few operands -- dce :: function { b0(): a = add a; return } => 2 unreadable text|
a jump in mid-block -- dce :: function { b0(): jump b0(); return } => 2 unreadable text|
a text of another notation -- dce :: func { b0(): ret } => 2 unreadable text|
a graph without a colon -- graph :: 0 => 2 unreadable text|
a list of no passes -- passes :: # => 2 usage: arithmetic_opt LIST, or arithmetic_opt graph|
a nested list with rounds inside -- nested:repeat:8:dce :: # => 2 usage: arithmetic_opt LIST, or arithmetic_opt \
    graph|";

// The bytes of the text, in which `|` stands for the end of a line.
fn with_lines(rt: &impl Abort, alloc: Global, text: &str) -> Vec<u8> {
    let mut bytes = Vec::from_slice(alloc, text.as_bytes()).expect(rt, "memory");
    for byte in bytes.iter_mut() {
        if *byte == b'|' {
            *byte = b'\n';
        }
    }
    bytes
}

fn status_word(status: u8) -> &'static str {
    match status {
        0 => "0",
        1 => "1",
        2 => "2",
        _ => "another",
    }
}

// Runs the program on these words, and asks that it ends and writes so.
fn check(rt: &impl Abort, alloc: Global, name: &str, words: &[String], text: &str, end: &str) {
    let (status, line) = end.split_once(' ').unwrap_or((end, ""));
    let line = with_lines(rt, alloc, line);
    let text = with_lines(rt, alloc, text);
    let mut input = text.as_slice();
    let mut written: Vec<u8> = Vec::new(alloc);
    let mut reported: Vec<u8> = Vec::new(alloc);
    let got = run_optimiser::<KindNotation<ArithmeticKind>, _, _, _>(
        alloc,
        "arithmetic_opt",
        words,
        &mut input,
        &mut written,
        &mut reported,
    );
    let (answer, report): (&[u8], &[u8]) = if got == 0 { (&line, b"") } else { (b"", &line) };
    expect_text(rt, status_word(got), status, name);
    expect_bytes(rt, written.as_slice(), answer, name);
    expect_bytes(rt, reported.as_slice(), report, name);
}

fn check_case(rt: &impl Abort, alloc: Global, line: &str) {
    let (name, row) = line.split_once(" -- ").expect(rt, "a name");
    let (given, end) = row.split_once(" => ").expect(rt, "an end");
    let (list, text) = given.split_once(" :: ").expect(rt, "a list");
    let list = String::from_str(alloc, list).expect(rt, "memory");
    check(rt, alloc, name, &[list], text, end);
}

#[test]
fn texts(rt: HostRuntime) {
    for line in CASES.lines() {
        check_case(&rt, rt.alloc(), line);
    }
}

#[test]
fn other_numbers_of_words(rt: HostRuntime) {
    let usage = "2 usage: arithmetic_opt LIST, or arithmetic_opt graph|";
    check(&rt, rt.alloc(), "no words", &[], "#", usage);
    let first = String::from_str(rt.alloc(), "sccp").expect(&rt, "memory");
    let second = String::from_str(rt.alloc(), "dce").expect(&rt, "memory");
    check(&rt, rt.alloc(), "two words", &[first, second], "#", usage);
}
