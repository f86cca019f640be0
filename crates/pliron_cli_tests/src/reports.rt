//! What `plir opt` reports beside its answer, worked by hand. `|` stands for the end of a line.
use crate::lines::in_one_line;
use crate::optimised::{all_options, plain, with_instrumentation};
use pliron_show_commands::{
    BenchNotation, InstrumentationOptions, OptOptions, Outcome, Progress, Source, opt,
};
use std::alloc::Global;
use std::io;
use std::process::Abort;
use std::time::{Clock, Duration};

/// A clock that can't be read.
#[derive(Clone, Copy, Drop)]
struct Broken;

impl Clock for Broken {
    fn monotonic(&self) -> io::Result<Duration> {
        Err(io::Error::from(io::ErrorKind::Other))
    }

    fn since_1970(&self) -> io::Result<Duration> {
        Err(io::Error::from(io::ErrorKind::Other))
    }
}

impl Progress for Broken {
    fn pass_ended(&self, _: usize, _: &str) {}
}

// What is reported of the passes on the text.
fn report_on(rt: &impl Abort, alloc: Global, text: &str, options: &OptOptions) -> Outcome {
    let source = Source {
        name: "in.plir",
        text: text.as_bytes(),
    };
    opt::<BenchNotation, _>(alloc, &source, options, Broken).expect(rt, "memory")
}

fn expect_report(rt: &impl Abort, alloc: Global, text: &str, options: &OptOptions, wanted: &str) {
    let outcome = report_on(rt, alloc, text, options);
    let found = in_one_line(alloc, outcome.report.as_bytes()).expect(rt, "memory");
    assert!(rt; found.as_str() == wanted, "{text} => {found}");
}

/// Two functions, of which the first has a sum of constants that nothing uses.
static TWO: &str =
    "mod { b0(): func { b0(): a = const 2; b = mul a a; ret a }; func { b0(x): br b1(x); b1(y): ret y } }";

/// The trees after `dce` of the list.
static TREES: &str = "\
--- run 2, after dce: changed|func { b0(): v0 = const 2; ret v0 }|\
--- run 4, after dce: unchanged|func { b0(v0): br b1(v0); b1(v1): ret v1 }|";

#[test]
fn trees_after_a_pass(rt: HostRuntime) {
    let instrumentation = InstrumentationOptions {
        counts: false,
        verifies: false,
        prints_all: false,
        prints: &["dce"],
    };
    let options = with_instrumentation("nested(sccp,dce)", instrumentation);
    expect_report(&rt, rt.alloc(), TWO, &options, TREES);
}

/// Counts over both functions, with 4 and 3 operations, 3 blocks, 2 arguments and one edge: propagation makes a
/// constant beside the product, and then both are dead.
static COUNTS: &str = "\
round  pass          runs  changed  operations  blocks  arguments   edges\
|    1  sccp             2        1      7 -> 8  3 -> 3     2 -> 2  1 -> 1\
|    1  dce              2        1      8 -> 6  3 -> 3     2 -> 2  1 -> 1\
|operations made, erased and moved; operands changed; blocks, arguments erased\
|round  pass          made  erased  moved  operands  blocks  arguments\
|    1  sccp             1       0      0         0       0          0\
|    1  dce              0       2      0         0       0          0|";

#[test]
fn counts_over_functions(rt: HostRuntime) {
    let mut options = plain("nested(sccp,dce)");
    options.instrumentation.counts = true;
    expect_report(&rt, rt.alloc(), TWO, &options, COUNTS);
}

/// Rounds until nothing changes.
static ROUNDS: &str = "\
round  pass          runs  changed  operations  blocks  arguments   edges\
|    1  dce              1        1      4 -> 2  1 -> 1     0 -> 0  0 -> 0\
|    2  dce              1        0      2 -> 2  1 -> 1     0 -> 0  0 -> 0\
|operations made, erased and moved; operands changed; blocks, arguments erased\
|round  pass          made  erased  moved  operands  blocks  arguments\
|    1  dce              0       2      0         0       0          0\
|    2  dce              0       0      0         0       0          0|";

#[test]
fn rounds_of_a_repetition(rt: HostRuntime) {
    let mut options = plain("repeat<5>(dce)");
    options.instrumentation.counts = true;
    let text = "func { b0(): a = const 2; b = mul a a; ret }";
    expect_report(&rt, rt.alloc(), text, &options, ROUNDS);
}

// The rows of what was rewritten, without rounds.
fn rewritten_rows(rt: &impl Abort, alloc: Global, report: &str) -> String {
    let mut found = String::new(alloc);
    let (_, table) = report
        .split_once("blocks, arguments erased\n")
        .expect(rt, "a table");
    for line in table.lines().skip(1) {
        for word in line.split_ascii_whitespace().skip(1) {
            found.push_str(word).expect(rt, "memory");
            found.push_str(" ").expect(rt, "memory");
        }
    }
    found
}

/// Passes, texts, and the operations that each pass made, erased and moved, the operands that it changed, and the
/// blocks and arguments that it erased. In the first, propagation replaces `p` by a 5 and `q` by another, each used
/// once. Then `x`, `y` and the 5 in `b1` have no use, once the arguments are erased and the three branches pass
/// nothing. At last the condition and the two branches left are erased, with three blocks, and a constant and `ret`
/// move to the first. In the second a branch is made in place of a conditional one. In the third it is erased again as
/// its block is joined, `print` and `ret` take `x`, and the last branches are erased.
static REWRITTEN: &str = "\
sccp,dce,simplify-cfg | func { b0(): c = const 1; x = const 5; cbr c b1(x) b2(); b1(p): br b3(p); b2(): y = const 6; \
    br b3(y); b3(q): ret q } => sccp 2 0 0 2 0 0 dce 0 3 0 3 0 2 simplify-cfg 0 3 2 0 3 0
simplify-cfg | func { b0(x): c = const 1; cbr c b1(x) b2(); b1(p): cbr p b1(p) b2(); b2(): ret } => \
    simplify-cfg 1 1 0 0 0 0
simplify-cfg | func { b0(x): c = const 1; cbr c b1(x) b2(x); b1(p): print p; br b3(p); b2(q): print q; br b3(q); \
    b3(r): ret r } => simplify-cfg 0 4 2 2 3 3
dce | func { b0(x, y): br b1(x, y, x); b1(p, q, r): print q; ret } => dce 0 0 0 2 0 2
simplify-cfg | func { b0(): ret; b1(x): scope x { b2(y): z = add y y; ret z }; ret } => simplify-cfg 0 4 0 0 2 2
nested(sccp) | mod { b0(): func { b0(): a = const 2; b = mul a a; ret b }; func { b0(): a = const 3; b = add a a; \
    print b; ret b } } => sccp 2 0 0 3 0 0";

#[test]
fn what_was_rewritten(rt: HostRuntime) {
    let alloc = rt.alloc();
    for case in REWRITTEN.lines() {
        let (pipeline, rest) = case.split_once(" | ").expect(&rt, "passes");
        let (text, wanted) = rest.split_once(" => ").expect(&rt, "a case");
        let mut options = plain(pipeline);
        options.instrumentation.counts = true;
        let outcome = report_on(&rt, alloc, text, &options);
        let found = rewritten_rows(&rt, alloc, outcome.report.as_str());
        assert!(rt; found.as_str().trim_end() == wanted, "{text} => {found}");
    }
}

#[test]
fn verifying_and_times(rt: HostRuntime) {
    let alloc = rt.alloc();
    let mut options = plain("sccp,dce");
    options.instrumentation.verifies = true;
    let wanted = "verified after each of 2 runs of passes: 2 without a fault|";
    expect_report(&rt, alloc, "func { b0(): ret }", &options, wanted);
    let mut options = plain("dce,simplify-cfg");
    options.times = true;
    let wanted = "pass             runs milliseconds  percent|\
        dce                 1        0.000    0.0|\
        simplify-cfg        1        0.000    0.0|\
        all                 2        0.000    0.0|";
    expect_report(&rt, alloc, "func { b0(): ret }", &options, wanted);
}

/// Passes, texts, and what is reported where one is refused. In the second text folding makes the branch that takes
/// `v`, so it has no place. In the fourth the pass runs on each function, and the second one is refused.
static REFUSED: &str = "\
dce,simplify-cfg | func { b0(): c = const 0; cbr c b1() b2(); b1(): v = const 1; br b2(); b2(): print v; ret } => \
    error: refused: a value of an unreachable block is used| --> in.plir:1:84|  ||1 | \
    .. 1() b2(); b1(): v = const 1; br b2(); b2(): print v; ret }|  \
    |                                                      \
    ^ operand 1, `v`, is defined in a block that isn't reached|\
    help: define the value in a block that is reached, or pass it as an argument of a block|\
    note: `v` is defined here| --> in.plir:1:50|  ||1 | \
    func { b0(): c = const 0; cbr c b1() b2(); b1(): v = const 1; br b2(); b2(): print v; ret }|  \
    |                                                  ^|\
    note: it was the pass simplify-cfg|
simplify-cfg | func { b0(): c = const 1; cbr c b1(v) b1(c); b1(p): ret p; b2(): v = read } => \
    error: refused: a value of an unreachable block is used| --> in.plir:1:66|  ||1 | \
    .. = const 1; cbr c b1(v) b1(c); b1(p): ret p; b2(): v = read }|  \
    |                                                      \
    ^ `v` is defined here, where nothing leads; an operation that a pass made takes it|\
    help: define the value in a block that is reached, or pass it as an argument of a block|\
    note: it was the pass simplify-cfg|
simplify-cfg | func { b0(): scope { c0(): ret q; c1(q): scope { d0(r): ret r }; ret q }; ret } => \
    error: refused: a value of an unreachable block is used| --> in.plir:1:32|  ||1 | \
    func { b0(): scope { c0(): ret q; c1(q): scope { d0(r): ret r }; ret q }; ret }|  |                                \
    ^ operand 1, `q`, is defined in a block that isn't reached|\
    help: define the value in a block that is reached, or pass it as an argument of a block|\
    note: `q` is defined here| --> in.plir:1:38|  ||1 | \
    func { b0(): scope { c0(): ret q; c1(q): scope { d0(r): ret r }; ret q }; ret }|  \
    |                                      ^|\
    note: it was the pass simplify-cfg|
nested(simplify-cfg) | mod { m(): func { a(): ret }; func { b(): ret v; c(): v = read; ret } } => \
    error: refused: a value of an unreachable block is used| --> in.plir:1:47|  ||1 | \
    mod { m(): func { a(): ret }; func { b(): ret v; c(): v = read; ret } }|  \
    |                                               \
    ^ operand 1, `v`, is defined in a block that isn't reached|\
    help: define the value in a block that is reached, or pass it as an argument of a block|\
    note: `v` is defined here| --> in.plir:1:55|  ||1 | \
    .. { m(): func { a(): ret }; func { b(): ret v; c(): v = read; ret } }|  \
    |                                                      ^|\
    note: it was the pass simplify-cfg|";

#[test]
fn refusals_report_uses(rt: HostRuntime) {
    for case in REFUSED.lines() {
        let (pipeline, rest) = case.split_once(" | ").expect(&rt, "passes");
        let (text, wanted) = rest.split_once(" => ").expect(&rt, "a case");
        expect_report(&rt, rt.alloc(), text, &plain(pipeline), wanted);
    }
}

#[test]
fn refusals_write_nothing(rt: HostRuntime) {
    let text = "func { b0(): ret v; b1(): v = const 1; br b1() }";
    let outcome = report_on(&rt, rt.alloc(), text, &all_options("dce,simplify-cfg"));
    assert!(rt; outcome.status == 1 && outcome.output.is_empty());
    assert!(rt; outcome.report.as_str().contains("--- run 1, after dce"));
}
