//! Texts that are fit to run and texts that aren't: what `check` reports of each, and what `opt` warns of.
use crate::optimised::plain;
use pliron_driver_instrument::Timeless;
use pliron_show_commands::{BenchNotation, MessageForm, Source, check, in_form, opt_with_check};
use std::alloc::Global;
use std::process::Abort;

/// Texts, and what is reported of each: the message, the place and what is written under it, and the note with its
/// place.
static UNFIT: &str = "\
func { b0(): scope { c0(): v = const 5; ret v }; ret v } => an operand isn't visible at this operation|--> in.plir:1:54|^ operand 1, `v`, is defined inside another operation, and isn't visible here|note: `v` is defined here|--> in.plir:1:28
func { b0(): x = add y y; y = const 4; ret x } => an operand isn't defined on each way to this operation|--> in.plir:1:22|^ operand 1, `y`, may not be defined yet when this runs|note: `y` is defined here|--> in.plir:1:27|--> in.plir:1:24|^ operand 2, `y`,
func { b0(c): cbr c b1() b2(); b1(): x = const 1; br b2(); b2(): print x; ret } => an operand isn't defined on each way to this operation|--> in.plir:1:72|^ operand 1, `x`, may not be defined yet when this runs|note: `x` is defined here|--> in.plir:1:38
func { b0(x): br b1(); b1(y): ret } => an edge passes another number of values than its block takes|--> in.plir:1:18|^^^^ edge 1 passes 0, and its block takes 1|note: this block takes 1|--> in.plir:1:24
func { b0(c): cbr c b1(c, c) b2(); b1(y): ret; b2(): ret } => an edge passes another number of values than its block takes|--> in.plir:1:21|^^^^^^^^ edge 1 passes 2, and its block takes 1|note: this block takes 1|--> in.plir:1:36
mod { m(): func { b0(): ret }; func { b0(): x = add y y; y = const 4; ret x } } => an operand isn't defined on each way to this operation|--> in.plir:1:53
mod { m(): mod { n(): func { b0(x): br b1(); b1(y): ret } } } => an edge passes another number of values than its block takes|--> in.plir:1:40";

// Each of the parts is in what is reported.
fn expect_parts(rt: &impl Abort, text: &str, reported: &str, wanted: &str) {
    for part in wanted.split('|') {
        assert!(rt; reported.contains(part), "{text} => {reported}");
    }
}

fn expect_unfit(rt: &impl Abort, alloc: Global, text: &str, wanted: &str) {
    let source = Source {
        name: "in.plir",
        text: text.as_bytes(),
    };
    let checked = check::<BenchNotation>(alloc, &source).expect(rt, "memory");
    assert!(rt; checked.status == 3 && checked.output.is_empty(), "{text}");
    let report = checked.report.as_str();
    assert!(rt; report.starts_with("error: "), "{text} => {report}");
    expect_parts(rt, text, report, wanted);
}

#[test]
fn unfit_texts_are_reported(rt: HostRuntime) {
    for case in UNFIT.lines() {
        let (text, wanted) = case.split_once(" => ").expect(&rt, "a case");
        expect_unfit(&rt, rt.alloc(), text, wanted);
    }
}

/// Texts with several things that are wrong, and what is reported of each, in the order of the text, in the short form.
static SEVERAL: &str = "\
func { b0(x): br b1(); b1(y): z = add y w; br b1(y, y); b2(): w = const 1; ret } => \
1:18: error: an edge passes another number of values than its block takes: edge 1 passes 0, and its block takes 1|1:24: note: this block takes 1|\
1:41: error: an operand isn't defined on each way to this operation: operand 2, `w`, may not be defined yet when this runs|1:63: note: `w` is defined here|\
1:47: error: an edge passes another number of values than its block takes: edge 1 passes 2, and its block takes 1|1:24: note: this block takes 1|
func { b0(c): cbr c b1(c, c) b2(); b1(y): ret; b2(z): ret } => \
1:21: error: an edge passes another number of values than its block takes: edge 1 passes 2, and its block takes 1|1:36: note: this block takes 1|\
1:30: error: an edge passes another number of values than its block takes: edge 2 passes 0, and its block takes 1|1:48: note: this block takes 1|
func { b0(): ret; ret; ret } => \
1:14: error: an operation that ends a block isn't its last one: what stands behind it is never run|\
1:19: error: an operation that ends a block isn't its last one: what stands behind it is never run|
mod { m(): func { b0(x): br b1(); b1(y): ret }; func { b0(): ret }; mod { n(): func { b0(): x = add x y; y = const 4; ret } } } => \
1:29: error: an edge passes another number of values than its block takes: edge 1 passes 0, and its block takes 1|1:35: note: this block takes 1|\
1:101: error: an operand isn't defined on each way to this operation: operand 1, `x`, is a result of this very operation|1:93: note: `x` is defined here|\
1:103: error: an operand isn't defined on each way to this operation: operand 2, `y`, may not be defined yet when this runs|1:106: note: `y` is defined here|
func { b0(): scope { c0(): v = const 5; scope v { d0(w): print u; ret }; ret v }; u = add v v; ret } => \
1:64: error: an operand isn't defined on each way to this operation: operand 1, `u`, may not be defined yet when this runs|1:83: note: `u` is defined here|\
1:91: error: an operand isn't visible at this operation: operand 1, `v`, is defined inside another operation, and isn't visible here|1:28: note: `v` is defined here|\
1:93: error: an operand isn't visible at this operation: operand 2, `v`, is defined inside another operation, and isn't visible here|1:28: note: `v` is defined here|";

// What is reported of the text in the short form, in one line, without the name of the text.
fn reported_in_short(rt: &impl Abort, alloc: Global, text: &str) -> String {
    let source = Source {
        name: "",
        text: text.as_bytes(),
    };
    let checked = check::<BenchNotation>(alloc, &source).expect(rt, "memory");
    assert!(rt; checked.status == 3, "{text}");
    let report = in_form(alloc, checked.report.as_str(), MessageForm::Short).expect(rt, "memory");
    let mut line = String::new(alloc);
    for message in report.as_str().lines() {
        line.push_str(message.trim_start_matches(':'))
            .expect(rt, "memory");
        line.push('|').expect(rt, "memory");
    }
    line
}

#[test]
fn all_that_is_wrong_is_reported(rt: HostRuntime) {
    for case in SEVERAL.lines() {
        let (text, wanted) = case.split_once(" => ").expect(&rt, "a case");
        let reported = reported_in_short(&rt, rt.alloc(), text);
        assert_eq!(rt; reported.as_str(), wanted, "{text}");
    }
}

// Of more than a hundred things the first hundred are reported, and how many more there are.
#[test]
fn a_hundred_at_most(rt: HostRuntime) {
    let mut text = String::from_str(rt.alloc(), "func { b0(): ").expect(&rt, "memory");
    for _ in 0..103 {
        text.push_str("ret; ").expect(&rt, "memory");
    }
    text.push_str("ret }").expect(&rt, "memory");
    let reported = reported_in_short(&rt, rt.alloc(), text.as_str());
    assert_eq!(rt; reported.as_str().split('|').count(), 102);
    assert!(rt;
        reported
            .as_str()
            .ends_with("|note: 3 more are wrong, which aren't told|")
    );
}

/// Texts, and what `opt` warns of before `dce`: nothing where the text, or each function of a `mod`, is fit to run.
static WARNED: &str = "\
func { b0(): ret } =>
mod { } =>
mod { m(): func { b0(): ret }; mod { n(): func { b0(): ret } } } =>
func { b0(): x = add y y; y = const 4; ret x } => warning: an operand isn't defined on each way to this operation|--> in.plir:1:22
mod { m(): func { b0(): ret }; func { b0(): x = add y y; y = const 4; ret x } } => warning: an operand isn't defined on each way to this operation|--> in.plir:1:53";

fn expect_warning(rt: &impl Abort, alloc: Global, text: &str, wanted: &str) {
    let source = Source {
        name: "in.plir",
        text: text.as_bytes(),
    };
    let outcome = opt_with_check::<BenchNotation, _>(
        alloc,
        &source,
        &plain("dce"),
        false,
        Timeless,
    );
    let outcome = outcome.expect(rt, "memory");
    assert!(rt; outcome.status == 0 && !outcome.output.is_empty(), "{text}");
    let report = outcome.report.as_str();
    assert!(rt;
        report.is_empty() == wanted.is_empty(),
        "{text} => {report}"
    );
    expect_parts(rt, text, report, wanted);
}

#[test]
fn opt_warns(rt: HostRuntime) {
    for case in WARNED.lines() {
        let (text, wanted) = case.split_once(" =>").expect(&rt, "a case");
        expect_warning(&rt, rt.alloc(), text, wanted.trim());
    }
}

/// Texts that are fit to run, and the line that is written.
static FIT: &str = "\
a function -- func { b0(): ret } => well linked and fit to run
a module -- mod { m(): func { b0(): ret }; func { b0(x): br b1(x); b1(y): ret y } } => fit to run, each part by itself
without a function -- mod { } => fit to run, each part by itself
one inside another -- mod { m(): func { b0(): ret }; mod { n(): func { b0(): ret } } } => \
    fit to run, each part by itself";

fn expect_fit(rt: &impl Abort, alloc: Global, case: &str) {
    let (name, case) = case.split_once(" -- ").expect(rt, "a name");
    let (text, wanted) = case.split_once(" => ").expect(rt, "a case");
    let source = Source {
        name: "in.plir",
        text: text.as_bytes(),
    };
    let checked = check::<BenchNotation>(alloc, &source).expect(rt, "memory");
    assert!(rt; checked.status == 0 && checked.report.is_empty(), "{name}");
    let written = std::str::from_utf8(&checked.output).unwrap_or("");
    assert!(rt; written.trim_end() == wanted, "{name}");
}

#[test]
fn fit_texts_are_called_so(rt: HostRuntime) {
    for case in FIT.lines() {
        expect_fit(&rt, rt.alloc(), case);
    }
}

// With `is_strict` an unfit text is reported as an error, and nothing is written.
fn expect_strict(rt: &impl Abort, alloc: Global, text: &str, status: u8) {
    let source = Source {
        name: "in.plir",
        text: text.as_bytes(),
    };
    let outcome = opt_with_check::<BenchNotation, _>(alloc, &source, &plain("dce"), true, Timeless);
    let outcome = outcome.expect(rt, "memory");
    assert!(rt; outcome.status == status, "{text}");
    assert!(rt; outcome.output.is_empty() == (status != 0), "{text}");
    assert!(rt;
        outcome.report.as_str().starts_with("error: ") == (status != 0),
        "{text}"
    );
}

#[test]
fn strictly(rt: HostRuntime) {
    expect_strict(&rt, rt.alloc(), "func { b0(): ret }", 0);
    expect_strict(&rt, rt.alloc(), "mod { m(): func { b0(): ret } }", 0);
    expect_strict(
        &rt,
        rt.alloc(),
        "mod { m(): func { b0(): ret }; func { b0(x): br b1(); b1(y): ret } }",
        3,
    );
    expect_strict(
        &rt,
        rt.alloc(),
        "func { b0(): x = add y y; y = const 4; ret x }",
        3,
    );
    expect_strict(&rt, rt.alloc(), "func { b0(): rat }", 2);
}

// Where each run is verified, it is reported that the text wasn't fit before.
#[test]
fn verifying_reads_the_input(rt: HostRuntime) {
    let source = Source {
        name: "in.plir",
        text: b"func { b0(): x = add y y; y = const 4; ret x }",
    };
    let mut options = plain("dce");
    options.instrumentation.verifies = true;
    let outcome = opt_with_check::<BenchNotation, _>(
        rt.alloc(),
        &source,
        &options,
        false,
        Timeless,
    );
    let outcome = outcome.expect(&rt, "memory");
    let reported = outcome.report.as_str();
    let wanted =
        "warning: already in the input: an operand isn't defined on each way to this operation\n --> in.plir:1:22\n";
    assert!(rt; reported.starts_with(wanted), "{reported}");
}
