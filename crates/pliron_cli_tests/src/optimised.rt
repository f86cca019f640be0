//! What `plir opt` writes, beside what `plir_opt` does on the same words and texts.
use crate::lines::{in_one_line, with_lines};
use pliron_driver::plir_run;
use pliron_driver_instrument::Timeless;
use pliron_show_commands::{BenchNotation, InstrumentationOptions, OptOptions, Source, opt};
use std::alloc::Global;
use std::process::Abort;

/// Passes that are instrumented so.
pub fn with_instrumentation<'w>(
    pipeline: &'w str,
    instrumentation: InstrumentationOptions<'w>,
) -> OptOptions<'w> {
    OptOptions {
        pipeline,
        is_pretty: false,
        instrumentation,
        times: false,
        json: false,
    }
}

/// Passes alone.
pub fn plain(pipeline: &str) -> OptOptions<'_> {
    let instrumentation = InstrumentationOptions {
        counts: false,
        verifies: false,
        prints_all: false,
        prints: &[],
    };
    with_instrumentation(pipeline, instrumentation)
}

/// The same with all that can be reported.
pub fn all_options(pipeline: &str) -> OptOptions<'_> {
    let instrumentation = InstrumentationOptions {
        counts: true,
        verifies: true,
        prints_all: true,
        prints: &[],
    };
    let mut options = with_instrumentation(pipeline, instrumentation);
    options.times = true;
    options
}

/// Words that say the same, `plir_opt`'s first.
static LISTS: &str = "\
sccp | sccp
dce | dce
simplify-cfg | simplify-cfg
sccp,dce | sccp,dce
sccp,simplify-cfg,dce | sccp,simplify-cfg,dce
nested:sccp | nested(sccp)
nested:dce,simplify-cfg | nested(dce,simplify-cfg)
repeat:1:sccp | repeat<1>(sccp)
repeat:64:dce,dce | repeat<64>(dce,dce)
repeat:8:sccp,dce,simplify-cfg | repeat<8>(sccp,dce,simplify-cfg)
repeat:8:nested:sccp,dce,simplify-cfg | repeat<8>(nested(sccp,dce,simplify-cfg))
repeat:3:nested:dce | repeat<3>(nested:dce)
repeat:3:nested:dce | repeat:3:nested(dce)";

/// Texts, one a line.
static TEXTS: &str = "\
func { b0(): ret }
func { b0(): c = const 1; x = const 5; cbr c b1(x) b2(); b1(p): br b3(p); b2(): y = const 6; br b3(y); b3(q): ret q }
func { b0(x): one = const -1; br b1(x); b1(n): q = div x n; m = add n one; cbr m b1(m) b2(q); b2(r): print r; ret r }
mod { b0(): func { b0(): a = const 2; b = mul a a; ret b }; func { b0(x): y = add x x; ret }; mod { b0(): func { b0(): ret } } }
mod { }
func { b0(): s, t = pair; scope s { b0(v): c = const 0; cbr c b1() b2(); b1(): br b2(); b2(): ret v }; ret t }
func { b0(): c = const 0; cbr c b1() b2(); b1(): v = const 1; br b2(); b2(): print v; ret }
func { b0(): a = const 1
func { b0(): z = const 0; br b1(z); b1(p): cbr p b3() b2(); b2(): o = const 1; br b1(o); b3(): k = const 0; m = mul p k; ret m }";

// `plir opt` on a word writes what `plir_opt` does on another, but for the line that says whether the tree changed,
// and ends with the same status.
fn expect_same(rt: &impl Abort, alloc: Global, list: &str, options: &OptOptions, text: &str) {
    let mut words = Vec::new(alloc);
    words
        .push(String::from_str(alloc, list).expect(rt, "memory"))
        .expect(rt, "memory");
    let mut input = text.as_bytes();
    let mut written: Vec<u8> = Vec::new(alloc);
    let mut reported: Vec<u8> = Vec::new(alloc);
    let status = plir_run(alloc, &words, &mut input, &mut written, &mut reported);
    let source = Source {
        name: "in.plir",
        text: text.as_bytes(),
    };
    let outcome = opt::<BenchNotation, _>(alloc, &source, options, Timeless).expect(rt, "memory");
    assert!(rt; outcome.status == status, "{list}: {text}");
    let wanted = std::str::from_utf8(&written).unwrap_or("");
    let line = wanted.split_once('\n').unwrap_or(("", "")).0;
    let found = in_one_line(alloc, &outcome.output).expect(rt, "memory");
    assert!(rt;
        found.as_str().trim_end_matches('|') == line,
        "{list}: {text} => {found}"
    );
}

#[test]
fn as_plir_opt_does(rt: HostRuntime) {
    for case in LISTS.lines() {
        let (list, word) = case.split_once(" | ").expect(&rt, "a case");
        for text in TEXTS.lines() {
            expect_same(&rt, rt.alloc(), list, &plain(list), text);
            expect_same(&rt, rt.alloc(), list, &plain(word), text);
            expect_same(&rt, rt.alloc(), list, &all_options(word), text);
        }
    }
}

/// A text, and how it is written over several lines.
static PRETTY: &str =
    "func { b0(x): y = add x x; br b1(y); b1(z): ret z } => func {|b0(v0):|  v1 = add v0 v0;|  br b1(v1);|b1(v2):|  ret v2|}|";

#[test]
fn over_several_lines(rt: HostRuntime) {
    let alloc = rt.alloc();
    let (text, wanted) = PRETTY.split_once(" => ").expect(&rt, "a case");
    let source = Source {
        name: "in.plir",
        text: text.as_bytes(),
    };
    let mut options = plain("dce");
    options.is_pretty = true;
    let outcome = opt::<BenchNotation, _>(alloc, &source, &options, Timeless).expect(&rt, "memory");
    let lines = with_lines(alloc, wanted).expect(&rt, "memory");
    assert!(rt; outcome.output.as_slice() == lines.as_bytes());
    assert!(rt; outcome.report.is_empty());
}
