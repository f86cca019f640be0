//! What passes change, in the names of the text, worked by hand. `|` stands for the end of a line.
use crate::lines::{in_one_line, with_lines};
use crate::optimised::plain;
use pliron_driver_instrument::{PipelineText, Timeless};
use pliron_show_changes::{
    StageOptions, StageReport, changed_lines, run_stages, write_changes, write_named_answer,
};
use pliron_show_commands::{BenchNotation, Source, opt};
use std::alloc::Global;
use std::process::Abort;

/// Texts before and after, and what is written of the lines that changed.
static LINES: &str = "\
a|b|c => a|b|c =>   ..|
a|b|c => a|c =>  a|-b| c|
a|c => a|b|c =>  a|+b| c|
a|b => c|d => -a|-b|+c|+d|
a|b|c|d|e|f|g => a|b|c|d|e|f|h =>   ..| e| f|-g|+h|
x|b|c|d|e|f|g => y|b|c|d|e|f|g => -x|+y| b| c|  ..|
x|b|c|d|e|f|z => y|b|c|d|e|f|w => -x|+y| b| c|  ..| e| f|-z|+w|
 => a => +a|";

#[test]
fn lines_that_changed(rt: HostRuntime) {
    let alloc = rt.alloc();
    for case in LINES.lines() {
        let (before, rest) = case.split_once(" => ").expect(&rt, "a case");
        let (after, wanted) = rest.split_once(" => ").expect(&rt, "a case");
        let before = with_lines(alloc, before).expect(&rt, "memory");
        let after = with_lines(alloc, after).expect(&rt, "memory");
        let changes = changed_lines(alloc, before.as_str(), after.as_str());
        let changes = changes.expect(&rt, "memory");
        let mut found = String::new(alloc);
        write_changes(&mut found, &changes, false).expect(&rt, "memory");
        let found = in_one_line(alloc, found.as_bytes()).expect(&rt, "memory");
        assert!(rt; found.as_str() == wanted, "{case} => {found}");
    }
}

#[test]
fn colours_surround_lines(rt: HostRuntime) {
    let changes = changed_lines(rt.alloc(), "a\n", "b\n").expect(&rt, "memory");
    let mut found = String::new(rt.alloc());
    write_changes(&mut found, &changes, true).expect(&rt, "memory");
    assert!(rt; found.as_str() == "\u{1b}[31m-a\u{1b}[0m\n\u{1b}[32m+b\u{1b}[0m\n");
}

// Passes of which nothing is reported, whose answer keeps names.
fn names_alone<'w>() -> StageOptions<'w> {
    StageOptions {
        is_pretty: false,
        keeps_names: true,
        prints_before: &[],
        prints_after: &[],
        prints_all: false,
        reports_changes: false,
        is_coloured: false,
    }
}

// The same, and trees before and after these passes.
fn names_around<'w>(passes: &'w [&'w str]) -> StageOptions<'w> {
    StageOptions {
        is_pretty: false,
        keeps_names: true,
        prints_before: passes,
        prints_after: passes,
        prints_all: false,
        reports_changes: false,
        is_coloured: false,
    }
}

fn staged(
    rt: &impl Abort,
    alloc: Global,
    text: &str,
    list: &str,
    options: &StageOptions,
) -> Option<StageReport> {
    let plan = PipelineText::read(alloc, list).expect(rt, "a plan");
    run_stages::<BenchNotation>(alloc, text.as_bytes(), &plan, options).expect(rt, "memory")
}

/// Lists, texts, and what they become with names that stay.
static NAMED: &str = "\
dce => func { entry(x): br end(x); end(y): ret y } => func { entry(x): br end(x); end(y): ret y }
sccp => func { b0(): a = const 2; sum = add a a; ret sum } => func { b0(): a = const 2; sum_1 = const 4; sum = add a a; ret sum_1 }
sccp,dce => func { b0(): a = const 2; sum = add a a; sum_1 = const 7; ret sum sum_1 } => func { b0(): sum_2 = const 4; sum_1 = const 7; ret sum_2 sum_1 }
simplify-cfg => func { entry(x): br mid(x); mid(y): br end(y); end(z): print z; ret z } => func { entry(x): print x; ret x }
nested(dce) => mod { m(): func { f(p): u = const 1; ret p }; func { g(p): scope p { h(q): ret q }; ret } } => mod { m(): func { f(p): ret p }; func { g(p): scope p { h(q): ret q }; ret } }
cse => func { b0(x): a = add x x; b = add x x; print b; ret a } => func { b0(x): a = add x x; print a; ret a }
thread-edges => func { entry(): br mid(); mid(): br end(); end(): ret } => func { entry(): br end(); mid(): br end(); end(): ret }
canonicalize,dce => func { entry(x): zero = const 0; a = mul x zero; print a; ret x } => func { entry(x): zero = const 0; print zero; ret x }
nested(sccp,dce) => mod { m(): func { f(): a = const 2; b = mul a a; ret b }; func { f(): a = const 3; b = mul a a; ret b } } => mod { m(): func { f(): b_1 = const 4; ret b_1 }; func { f(): b_2 = const 9; ret b_2 } }";

fn expect_named(rt: &impl Abort, alloc: Global, list: &str, text: &str, wanted: &str) {
    let source = Source {
        name: "in",
        text: text.as_bytes(),
    };
    let answer = opt::<BenchNotation, _>(alloc, &source, &plain(list), Timeless);
    let answer = answer.expect(rt, "memory");
    let answer = std::str::from_utf8(&answer.output).unwrap_or("").trim_end();
    let staged = staged(rt, alloc, text, list, &names_alone()).expect(rt, "a text");
    let named = staged.named.as_deref();
    assert!(rt; named == Some(wanted), "{text} => {}", named.unwrap_or(""));
    let written = write_named_answer::<BenchNotation>(alloc, answer, named, false);
    let written = written.expect(rt, "memory");
    assert!(rt; written.as_slice() == wanted.as_bytes(), "{text}");
}

#[test]
fn names_stay(rt: HostRuntime) {
    for case in NAMED.lines() {
        let (list, rest) = case.split_once(" => ").expect(&rt, "a list");
        let (text, wanted) = rest.split_once(" => ").expect(&rt, "a case");
        expect_named(&rt, rt.alloc(), list, text, wanted);
    }
}

// An answer is written as it is where the text with other names says something else.
#[test]
fn other_texts_are_no_names(rt: HostRuntime) {
    let answer = "func { b0(v0): ret v0 }";
    for named in [
        None,
        Some("func { e(x): ret x x }"),
        Some("func { e(x): ret y }"),
        Some("func { e(x, y): ret x }"),
    ] {
        let written = write_named_answer::<BenchNotation>(rt.alloc(), answer, named, false);
        let written = written.expect(&rt, "memory");
        assert!(rt; written.as_slice() == answer.as_bytes());
    }
    let named = Some("func { e(x): ret x }");
    let written = write_named_answer::<BenchNotation>(rt.alloc(), answer, named, true);
    let written = written.expect(&rt, "memory");
    assert!(rt; written.as_slice() == b"func {\ne(x):\n  ret x\n}".as_slice());
}

// What is reported of the runs of a list on a text.
fn expect_report(rt: &impl Abort, alloc: Global, case: &str, options: &StageOptions) {
    let (list, rest) = case.split_once(" => ").expect(rt, "a list");
    let (text, wanted) = rest.split_once(" => ").expect(rt, "a case");
    let staged = staged(rt, alloc, text, list, options).expect(rt, "a text");
    let found = in_one_line(alloc, staged.report.as_bytes()).expect(rt, "memory");
    assert!(rt; found.as_str() == wanted, "{case} => {found}");
}

/// Lists, texts, and the lines that each run changed.
static CHANGED: &str = "\
nested(sccp,dce) => mod { m(): func { f(): a = const 2; b = mul a a; ret b }; func { g(x): br h(x); h(y): ret y \
    } } => --- run 1, changed by sccp at 0.0|  ..| f():|   a = const 2;|+  b_1 = const 4;|   b = mul a \
    a;|-  ret b|+  ret b_1| }|--- run 2, changed by dce at 0.0| func {| f():|-  a = const 2;|   b_1 = const \
    4;|-  b = mul a a;|   ret b_1| }|
canonicalize => func { f(x): z = const 0; a = mul x z; ret a } => --- run 1, changed by canonicalize|  ..|   z = const 0;|   a \
    = mul x z;|-  ret a|+  ret z| }|
dce => func { b0(): ret } => ";

#[test]
fn changes_are_reported(rt: HostRuntime) {
    let mut options = names_alone();
    options.reports_changes = true;
    for case in CHANGED.lines() {
        expect_report(&rt, rt.alloc(), case, &options);
    }
}

/// Lists, texts, and the trees before and after `dce`.
static AROUND: &str = "\
simplify-cfg,dce => func { f(): a = const 2; ret } => --- run 2, before dce|func { f(): a = const 2; ret }|--- run 2, after dce: changed|func { f(): ret }|
sccp => func { f(): ret } => ";

#[test]
fn trees_before_and_after(rt: HostRuntime) {
    let options = names_around(&["dce"]);
    for case in AROUND.lines() {
        expect_report(&rt, rt.alloc(), case, &options);
    }
}

#[test]
fn trees_after_all_by_numbers(rt: HostRuntime) {
    let mut options = names_alone();
    options.prints_all = true;
    options.keeps_names = false;
    options.is_pretty = true;
    let case =
        "dce => func { f(x): ret x } => --- run 1, after dce: unchanged|func {|b0(v0):|  ret v0|}|";
    expect_report(&rt, rt.alloc(), case, &options);
}

#[test]
fn broken_texts_have_no_stages(rt: HostRuntime) {
    assert!(rt; staged(&rt, rt.alloc(), "func {", "dce", &names_alone()).is_none());
}
