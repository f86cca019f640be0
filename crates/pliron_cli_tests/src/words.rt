//! Words that plan passes, and words that don't, with the column of what is wrong.
use crate::optimised::plain;
use pliron_driver_instrument::{PipelineText, Timeless};
use pliron_show_commands::{BenchNotation, Source, opt};
use std::alloc::Global;
use std::process::Abort;

fn expect_fault(rt: &impl Abort, alloc: Global, word: &str, column: &str, label: &str) {
    let source = Source {
        name: "in.plir",
        text: b"func { b0(): ret }",
    };
    let outcome = opt::<BenchNotation, _>(alloc, &source, &plain(word), Timeless).expect(
        rt, "memory",
    );
    let reported = outcome.report.as_str();
    assert!(rt; outcome.status == 2 && outcome.output.is_empty(), "{word}");
    let mut lines = reported.lines();
    assert!(rt; lines.next() == Some("error: no such passes"), "{reported}");
    let second = lines.next().unwrap_or("");
    let found = second.split_once("--> PIPELINE:1:").unwrap_or(("", "")).1;
    assert!(rt; found == column, "{word} => {reported}");
    assert!(rt;
        reported.trim_end().ends_with(label),
        "{word} => {reported}"
    );
}

/// Words that plan nothing, the column of what is wrong, and what was expected there.
static FAULTS: &str = "\
passes => 1 `sccp`, `dce`, `simplify-cfg`, `cse`, `canonicalize`, `combine` or `thread-edges`
sccp, dce => 6 `sccp`, `dce`, `simplify-cfg`, `cse`, `canonicalize`, `combine` or `thread-edges`
sccp,,dce => 6 `sccp`, `dce`, `simplify-cfg`, `cse`, `canonicalize`, `combine` or `thread-edges`
sccp,dce, => 10 `sccp`, `dce`, `simplify-cfg`, `cse`, `canonicalize`, `combine` or `thread-edges`
DCE => 1 `sccp`, `dce`, `simplify-cfg`, `cse`, `canonicalize`, `combine` or `thread-edges`
canonicalise => 1 `sccp`, `dce`, `simplify-cfg`, `cse`, `canonicalize`, `combine` or `thread-edges`
nested => 1 `sccp`, `dce`, `simplify-cfg`, `cse`, `canonicalize`, `combine` or `thread-edges`
nested: => 8 `sccp`, `dce`, `simplify-cfg`, `cse`, `canonicalize`, `combine` or `thread-edges`
nested:sccp,cs => 13 `sccp`, `dce`, `simplify-cfg`, `cse`, `canonicalize`, `combine` or `thread-edges`
nested(sccp => 12 `)`
nested(sccp)) => 8 `sccp`, `dce`, `simplify-cfg`, `cse`, `canonicalize`, `combine` or `thread-edges`
nested(sccp),dce => 13 the end, as nothing stands behind `)`
nested(nested(sccp)) => 8 `sccp`, `dce`, `simplify-cfg`, `cse`, `canonicalize`, `combine` or `thread-edges`
sccp,nested(dce) => 6 `sccp`, `dce`, `simplify-cfg`, `cse`, `canonicalize`, `combine` or `thread-edges`
repeat:sccp => 8 a number from 1 to 64, a colon and a list
repeat:0:sccp => 8 a number from 1 to 64
repeat:65:sccp => 8 a number from 1 to 64
repeat:08:sccp => 8 a number from 1 to 64
repeat:12:nested:x => 18 `sccp`, `dce`, `simplify-cfg`, `cse`, `canonicalize`, `combine` or `thread-edges`
repeat<8>sccp => 8 a number from 1 to 64, `>(` and a list
repeat<x>(sccp) => 8 a number from 1 to 64
repeat<8>(sccp => 15 `)`
repeat<8>(nested(sccp) => 22 `)`
repeat<8>(dce),sccp => 15 the end, as nothing stands behind `)`
repeat<64>(nested(sccp,y)) => 24 `sccp`, `dce`, `simplify-cfg`, `cse`, `canonicalize`, `combine` or `thread-edges`";

#[test]
fn words_without_passes(rt: HostRuntime) {
    for case in FAULTS.lines() {
        let (word, wanted) = case.split_once(" => ").expect(&rt, "a case");
        let (column, label) = wanted.split_once(' ').expect(&rt, "a column");
        expect_fault(&rt, rt.alloc(), word, column, label);
    }
    expect_fault(
        &rt,
        rt.alloc(),
        "",
        "1",
        "`sccp`, `dce`, `simplify-cfg`, `cse`, `canonicalize`, `combine` or `thread-edges`",
    );
}

/// Words, and the runs, whether they are for each operation inside, and the passes that they plan.
static PLANS: &str = "\
dce => once itself dce
sccp,dce => once itself sccp dce
nested:dce => once each dce
nested(dce,sccp) => once each dce sccp
repeat:5:dce => 5 itself dce
repeat<64>(simplify-cfg) => 64 itself simplify-cfg
repeat<1>(nested(dce,dce)) => 1 each dce dce
repeat:20:nested(sccp) => 20 each sccp
cse,canonicalize => once itself cse canonicalize
combine,dce => once itself combine dce
thread-edges,dce => once itself thread-edges dce
repeat:8:nested:canonicalize => 8 each canonicalize
repeat<20>(nested:sccp) => 20 each sccp";

// What is planned, in words.
fn in_words(rt: &impl Abort, alloc: Global, plan: &PipelineText) -> String {
    let mut reported = match plan.runs {
        Some(runs) => format!(in alloc; "{runs}").expect(rt, "memory"),
        None => String::from_str(alloc, "once").expect(rt, "memory"),
    };
    reported
        .push_str(if plan.nested { " each" } else { " itself" })
        .expect(rt, "memory");
    for name in &plan.names {
        write!(reported, " {name}").expect(rt, "memory");
    }
    reported
}

#[test]
fn words_plan_passes(rt: HostRuntime) {
    let alloc = rt.alloc();
    for case in PLANS.lines() {
        let (word, wanted) = case.split_once(" => ").expect(&rt, "a case");
        let plan = PipelineText::read(alloc, word).expect(&rt, "a plan");
        assert!(rt; in_words(&rt, alloc, &plan).as_str() == wanted, "{word}");
    }
}
