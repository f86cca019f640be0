//! Why passes changed what, worked by hand.
use pliron_show_commands::{BenchNotation, ExplainOptions, Outcome, Source, explain};
use std::alloc::Global;
use std::process::Abort;

/// Lists of passes, texts, and what is reported, where a bar stands for the end of a line.
static REASONS: &str = "\
dce => func { b0(): ret } => nothing of the text changed or went
dce => func { b0(): x = const 1; ret } => 1:14 x = const 1: unused (dce)
dce => func { b0(c): br b1(c); b1(p): ret } => 1:15 br b1(c): passes c no more (dce)|1:28 argument p of b1: unused (dce)
dce => func { b0(): box { b1(): x = const 1 }; ret } => 1:14 box: unused (dce)|1:26 x = const 1: inside an operation that went (dce)
sccp => func { b0(): a = const 2; b = add a a; ret b } => 1:27 b = add a a: folded to 4 by its operands (sccp)|1:40 ret b: takes 4 for b (sccp)
simplify-cfg => func { b0(): c = const 0; cbr c b1() b2(); b1(): ret; b2(): print c; ret } => 1:27 cbr c b1() b2(): always goes to b2 (simplify-cfg)|1:50 ret: unreachable (simplify-cfg)|1:61 print c: merged into b0 (simplify-cfg)|1:70 ret: merged into b0 (simplify-cfg)
cse => func { b0(x): a = add x x; b = add x x; print b; ret a } => 1:28 b = add x x: computed already, as a (cse)|1:41 print b: takes a for b (cse)
canonicalize => func { b0(x): z = const 0; a = mul x z; ret a } => 1:28 a = mul x z: folded to z by its operands (canonicalize)|1:41 ret a: takes z for a (canonicalize)
canonicalize => func { b0(x): a = div x x; ret a } => 1:15 a = div x x: folded to 1 by its operands (canonicalize)|1:28 ret a: takes 1 for a (canonicalize)
canonicalize => func { b0(x): br b1(x); b1(p): print p; ret } => 1:28 argument p of b1: always x (canonicalize)|1:32 print p: takes x for p (canonicalize)
simplify-cfg => func { b0(x): br b1(x); b1(y): ret y } => 1:15 br b1(x): b1 was merged into its block (simplify-cfg)|1:28 argument y of b1: merged, it is x (simplify-cfg)|1:32 ret y: merged into b0, takes x for y (simplify-cfg)
thread-edges => func { b0(x): cbr x b1() b2(); b1(): br b3(); b2(): br b1(); b3(): ret } => 1:15 cbr x b1() b2(): goes to b3 for b1, goes to b3 for b2 (thread-edges)|1:53 br b1(): goes to b3 for b1 (thread-edges)
sccp => func { b0(): a = const 2; b = add a a; ret } => 1:27 b = add a a: folded to 4 by its operands, and nothing uses it (sccp)
repeat:3:nested:sccp,dce => mod { m(): func { b0(): a = const 2; b = mul a a; ret b } } => 1:38 b = mul a a: folded to 4 by its operands (sccp, run 1)|1:51 ret b: takes 4 for b (sccp, run 1)|1:25 a = const 2: unused (dce, run 1)|1:38 b = mul a a: unused (dce, run 1)
repeat<3>(nested(sccp,dce)) => mod { m(): func { b0(): a = const 2; b = mul a a; ret b } } => 1:38 b = mul a a: folded to 4 by its operands (sccp, run 1)|1:51 ret b: takes 4 for b (sccp, run 1)|1:25 a = const 2: unused (dce, run 1)|1:38 b = mul a a: unused (dce, run 1)";

// The text with an end of a line for each bar.
fn with_lines(rt: &impl Abort, alloc: Global, text: &str) -> String {
    let mut lines = String::new(alloc);
    for letter in text.chars() {
        lines
            .push(if letter == '|' { '\n' } else { letter })
            .expect(rt, "memory");
    }
    lines.push_str("\n").expect(rt, "memory");
    lines
}

fn explained(
    rt: &impl Abort,
    alloc: Global,
    source: &Source,
    pipeline: &str,
    missed: bool,
) -> Outcome {
    let options = ExplainOptions {
        pipeline,
        missed,
        json: false,
    };
    explain::<BenchNotation>(alloc, source, &options).expect(rt, "memory")
}

#[test]
fn reasons_are_reported(rt: HostRuntime) {
    for case in REASONS.lines() {
        let (passes, rest) = case.split_once(" => ").expect(&rt, "a case");
        let (text, reported) = rest.split_once(" => ").expect(&rt, "a case");
        let source = Source {
            name: "text",
            text: text.as_bytes(),
        };
        let outcome = explained(&rt, rt.alloc(), &source, passes, false);
        let wanted = with_lines(&rt, rt.alloc(), reported);
        assert_eq!(rt;
            std::str::from_utf8(&outcome.output).unwrap_or(""),
            wanted.as_str(),
            "{}",
            outcome.report
        );
        assert_eq!(rt; outcome.status, 0);
    }
}

#[test]
fn other_lists_are_refused(rt: HostRuntime) {
    for passes in [
        "",
        "inline",
        "dce,",
        "repeat:0:dce",
        "repeat:65:dce",
        "repeat:07:dce",
        "nested:repeat:2:dce",
        "repeat<2>dce",
        "nested(dce",
    ] {
        let source = Source {
            name: "text",
            text: b"func { b0(): ret }",
        };
        let outcome = explained(&rt, rt.alloc(), &source, passes, false);
        assert!(rt; outcome.output.is_empty());
        assert_eq!(rt; outcome.status, 2);
        assert!(rt; outcome.report.starts_with("error: no such passes"));
    }
}

/// Lists of passes, texts, and a line that is reported of what they missed.
static MISSED: &str = "\
dce => func { b0(x): y = div x x; ret } => 1:15 y = div x x: stays, though nothing uses it: a div has side effects (missed by dce)
sccp => func { b0(x): y = div x x; ret } => 1:15 y = div x x: not folded: its operand 1, x, isn't known (missed by sccp)
simplify-cfg => func { b0(c): cbr c b1() b1(); b1(): ret } => 1:15 cbr c b1() b1(): goes either way: its operand 1, c, isn't known (missed by simplify-cfg)
sccp => func { b0(x): c = const 2; y = add c x; print y; ret } => 1:28 y = add c x: not folded: its operand 2, x, isn't known (missed by sccp)
dce => func { b0(): x = read; ret } => 1:14 x = read: stays, though nothing uses it: a read has side effects (missed by dce)
repeat<1>(sccp) => func { b0(): a = const 2; b = add a a; ret b } => 1:27 b = add a a: folded to 4 by its operands (sccp)";

#[test]
fn what_was_missed(rt: HostRuntime) {
    for case in MISSED.lines() {
        let (passes, rest) = case.split_once(" => ").expect(&rt, "a case");
        let (text, reported) = rest.split_once(" => ").expect(&rt, "a case");
        let source = Source {
            name: "text",
            text: text.as_bytes(),
        };
        let outcome = explained(&rt, rt.alloc(), &source, passes, true);
        let wanted = with_lines(&rt, rt.alloc(), reported);
        let found = std::str::from_utf8(&outcome.output).unwrap_or("");
        assert!(rt; found.contains(wanted.as_str()), "{text} => {found}");
    }
}

#[test]
fn a_limit_is_reported(rt: HostRuntime) {
    let source = Source {
        name: "text",
        text: b"func { b0(): br b1(); b1(): br b2(); b2(): ret }",
    };
    let outcome = explained(&rt, rt.alloc(), &source, "repeat<2>(simplify-cfg)", false);
    let found = std::str::from_utf8(&outcome.output).unwrap_or("");
    assert!(rt; !found.contains("as many as it may"), "{found}");
    let outcome = explained(&rt, rt.alloc(), &source, "repeat<1>(simplify-cfg)", false);
    let found = std::str::from_utf8(&outcome.output).unwrap_or("");
    assert!(rt; !found.contains("as many as it may"), "{found}");
    let text = b"func { b0(): a = const 2; b = add a a; ret b }";
    let source = Source { name: "text", text };
    let outcome = explained(&rt, rt.alloc(), &source, "repeat<2>(dce,sccp)", false);
    let found = std::str::from_utf8(&outcome.output).unwrap_or("");
    let wanted = "after 2 runs, as many as it may, the list still changed something\n";
    assert!(rt; found.ends_with(wanted), "{found}");
}
