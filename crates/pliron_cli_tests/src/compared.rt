//! Runs before and after passes, worked by hand. `|` stands for the end of a line.
use crate::lines::in_one_line;
use pliron_show_commands::{BenchNotation, CompareOptions, Datum, RunOptions, Source, compare};
use std::alloc::Global;
use std::process::Abort;

// Runs before and after these passes.
fn before_and_after<'w>(run: RunOptions<'w>, pipeline: &'w str) -> CompareOptions<'w> {
    CompareOptions { run, pipeline }
}

fn expect_compared(rt: &impl Abort, alloc: Global, pipeline: &str, text: &str, wanted: &str) {
    let source = Source {
        name: "in.plir",
        text: text.as_bytes(),
    };
    let run = RunOptions {
        inputs: &[Datum::Number(3)],
        world: &[Datum::Number(7), Datum::Number(8)],
        steps: 20,
        trace: false,
        json: false,
    };
    let options = before_and_after(run, pipeline);
    let outcome = compare::<BenchNotation>(alloc, &source, &options).expect(rt, "memory");
    let (status, output) = wanted.split_once(' ').expect(rt, "a status");
    let found = in_one_line(alloc, &outcome.output).expect(rt, "memory");
    assert!(rt; found.as_str() == output, "{text} => {found}");
    let found = format!(in alloc; "{}", outcome.status).expect(rt, "memory");
    assert!(rt; found.as_str() == status, "{text}");
}

/// Passes, texts, statuses, and what is written of the runs of each on 3 in a world that answers 7 and 8, up to 20
/// moves. The last text isn't fit to run: a branch gives its block no value, so the run traps there, and dead code
/// elimination removes the argument.
static COMPARED: &str = "\
sccp | func { b0(x): c = const 2; d = mul c c; e = mul d x; ret e } => 0 ended with 12|the same before and after|
nested(dce) | func { b0(x): print x; print x; ret } => 0 effect (print 3)|effect (print 3)|ended with nothing|the same before and after|
dce | func { b0(x): z = const 0; d = div x z; ret d } => 0 trapped|the same before and after|
repeat<4>(sccp,dce,simplify-cfg) | func { b0(x): br b1(); b1(): br b1() } => 3 before: made no further move: steps or the world's answers were used up|after: made no further move: steps or the world's answers were used up|the same as far as the runs went|
sccp | func { b0(x): print x; print x; print x; ret } => 3 before: effect (print 3)|effect (print 3)|effect \
    (print 3)|made no further move: steps or the world's answers were used up|after: effect (print 3)|effect \
    (print 3)|effect (print 3)|made no further move: steps or the world's answers were used up|the same as far \
    as the runs went|
dce | func { b0(x): br b1(); b1(y): ret } => 3 before: trapped|after: ended with nothing|not the same|";

#[test]
fn runs_are_compared(rt: HostRuntime) {
    for case in COMPARED.lines() {
        let (pipeline, rest) = case.split_once(" | ").expect(&rt, "passes");
        let (text, wanted) = rest.split_once(" => ").expect(&rt, "a case");
        expect_compared(&rt, rt.alloc(), pipeline, text, wanted);
    }
}

#[test]
fn texts_and_words_are_read(rt: HostRuntime) {
    let alloc = rt.alloc();
    expect_compared(&rt, alloc, "sccp", "func { b0(): ret", "2 ");
    expect_compared(&rt, alloc, "inline", "func { b0(): ret }", "2 ");
    let used =
        "func { b0(x): c = const 0; cbr c b1() b2(); b1(): v = const 1; br b2(); b2(): print v; ret }";
    expect_compared(&rt, alloc, "simplify-cfg", used, "1 ");
}
