//! Runs of texts, worked by hand: inputs, the world's answers, the text, and what is seen, where `|` stands for
//! the end of a line.
use crate::diagnostics::lines::with_lines;
use pliron_driver::BenchNotation;
use pliron_evaluator::evaluator::Datum;
use pliron_show::{EffectSink, End, RunOptions, run_text, run_text_streamed};
use pliron_show_places::Source;
use std::alloc::Global;
use std::process::Abort;

fn expect_run(rt: &impl Abort, alloc: Global, text: &str, wanted: &str, options: &RunOptions) {
    let wanted = with_lines(alloc, wanted).expect(rt, "memory");
    let source = Source {
        name: "in.plir",
        text: text.as_bytes(),
    };
    let reported = run_text::<BenchNotation>(alloc, &source, options)
        .expect(rt, "memory")
        .expect(rt, "a readable text");
    assert!(rt;
        reported.seen.as_str() == wanted.as_str(),
        "{text} => {}",
        reported.seen
    );
}

/// Texts, and what is seen of their runs on 3 and 4 in a world that answers 7 and 8, up to 20 moves.
static RUNS: &str = "\
func { b0(): ret } => ended with nothing|
func { b0(x, y): z = mul x y; ret z x } => ended with 12 3|
func { b0(x, y): print x; print y; ret } => effect (print 3)|effect (print 4)|ended with nothing|
func { b0(x, y): print x; print y; print x; ret } => effect (print 3)|effect (print 4)|effect (print 3)|made no further move: steps or the world's answers were used up|
func { b0(x, y): br b1(); b1(): br b1() } => made no further move: steps or the world's answers were used up|
func { b0(x, y): z = const 0; w = div x z; ret w } => trapped|";

#[test]
fn runs_are_seen(rt: HostRuntime) {
    let options = RunOptions {
        inputs: &[Datum::Number(3), Datum::Number(4)],
        world: &[Datum::Number(7), Datum::Number(8)],
        steps: 20,
        trace: false,
        json: false,
    };
    for case in RUNS.lines() {
        let (text, wanted) = case.split_once(" => ").expect(&rt, "a case");
        expect_run(&rt, rt.alloc(), text, wanted, &options);
    }
}

/// Texts, and what is reported of the last moves of their runs on 3 and 4 in a world that answers 7 and 8, up to 20
/// moves.
static LAST_MOVES: &str = "\
func { b0(x, y): ret x } =>
func { b0(x, y): z = const 0; w = div x z; ret w } => error: the run trapped|1:31|^^^^^^^^^^^ the divisor is 0
func { b0(x, y): z = const -9223372036854775808; o = const -1; w = div z o; ret w } => error: the run trapped|1:64|the quotient doesn't fit in 64 bits
func { b0(x, y): w = add x v; v = const 1; ret w } => error: the run trapped|1:18|its operand 2 isn't defined yet
func { b0(x, y): br b1(x, y); b1(z): ret z } => error: the run trapped|1:18|it passes 2, and its block takes 1
func { b0(x, y): c = const 0; cbr c b1() b1(x, y); b1(): ret } => error: the run trapped|1:31|it passes 2, and its block takes 0
func { b0(x, y): print x; print y; print x; ret } => note: the run was cut off|1:36|the world has no answer to effect 3
func { b0(x, y): br b1(); b1(): br b1() } => note: the run was cut off|1:33|the 20 moves that it may make were made";

fn expect_last_move(rt: &impl Abort, alloc: Global, text: &str, wanted: &str) {
    let source = Source {
        name: "in.plir",
        text: text.as_bytes(),
    };
    let options = RunOptions {
        inputs: &[Datum::Number(3), Datum::Number(4)],
        world: &[Datum::Number(7), Datum::Number(8)],
        steps: 20,
        trace: false,
        json: false,
    };
    let reported = run_text::<BenchNotation>(alloc, &source, &options)
        .expect(rt, "memory")
        .expect(rt, "a readable text");
    assert!(rt;
        reported.report.is_empty() == wanted.is_empty(),
        "{text} => {}",
        reported.report
    );
    for part in wanted.split('|') {
        assert!(rt;
            reported.report.as_str().contains(part),
            "{text} => {}",
            reported.report
        );
    }
}

#[test]
fn last_moves_are_reported(rt: HostRuntime) {
    for case in LAST_MOVES.lines() {
        let (text, wanted) = case.split_once(" =>").expect(&rt, "a case");
        expect_last_move(&rt, rt.alloc(), text, wanted.trim());
    }
}

/// A text that divides by zero in its second turn.
static TURNS: &str = "func {
b0(x):
  one = const -1;
  br b1(x);
b1(n):
  q = div x n;
  m = add n one;
  br b1(m)
}
";

/// What is reported of its run on 1.
static TURNS_REPORTED: &str = "1:1 func <- 1
3:3 one = const -1
4:3 br b1(x) <- 1
6:3 q = div x n <- 1 1
7:3 m = add n one <- 1 -1
8:3 br b1(m) <- 0
6:3 q = div x n <- 1 0
error: the run trapped
 --> in.plir:6:3
  |
6 |   q = div x n;
  |   ^^^^^^^^^^^ the divisor is 0
";

#[test]
fn moves_and_traps_are_reported(rt: HostRuntime) {
    let source = Source {
        name: "in.plir",
        text: TURNS.as_bytes(),
    };
    let options = RunOptions {
        inputs: &[Datum::Number(1)],
        world: &[],
        steps: 100,
        trace: true,
        json: false,
    };
    let reported = run_text::<BenchNotation>(rt.alloc(), &source, &options)
        .expect(&rt, "memory")
        .expect(&rt, "a readable text");
    assert!(rt;
        reported.report.as_str() == TURNS_REPORTED,
        "{}",
        reported.report
    );
    assert!(rt; reported.end == End::Trapped);
}

/// What the sink was given, and how often.
#[derive(Drop)]
struct Recorded {
    text: Vec<u8>,
    times: usize,
}

impl EffectSink for Recorded {
    fn accept(&mut self, lines: &[u8]) -> bool {
        self.times = self.times.saturating_add(1);
        self.text.extend_from_slice(lines).is_ok()
    }
}

// The effects that the sink is given and what is seen behind them are what is seen of the whole run.
fn expect_streamed(rt: &impl Abort, alloc: Global, text: &str, options: &RunOptions) -> usize {
    let source = Source {
        name: "in.plir",
        text: text.as_bytes(),
    };
    let whole = run_text::<BenchNotation>(alloc, &source, options)
        .expect(rt, "memory")
        .expect(rt, "a readable text");
    let mut reported = Recorded {
        text: Vec::new(alloc),
        times: 0,
    };
    let streamed = run_text_streamed::<BenchNotation, _>(alloc, &source, options, &mut reported)
        .expect(rt, "memory")
        .expect(rt, "a readable text");
    reported
        .text
        .extend_from_slice(streamed.seen.as_bytes())
        .expect(rt, "memory");
    assert!(rt; reported.text.as_slice() == whole.seen.as_bytes(), "{text}");
    assert!(rt; streamed.report.as_str() == whole.report.as_str(), "{text}");
    assert!(rt; streamed.end == whole.end, "{text}");
    reported.times
}

/// A text that prints, runs 2500 times round, and prints again.
static LONG: &str =
    "func { b0(x): print x; n = const 2500; o = const -1; br b1(n); b1(m): l = add m o; cbr l b1(l) b2(); b2(): print n; ret }";

#[test]
fn effects_come_while_a_run_continues(rt: HostRuntime) {
    for steps in [3, 4100, 100_000] {
        let options = RunOptions {
            inputs: &[Datum::Number(3)],
            world: &[Datum::Number(7), Datum::Number(8)],
            steps,
            trace: false,
            json: false,
        };
        let times = expect_streamed(&rt, rt.alloc(), LONG, &options);
        assert!(rt; times == if steps > 10_000 { 2 } else { 1 }, "{times}");
        let _ = expect_streamed(&rt, rt.alloc(), "func { b0(): ret }", &options);
    }
}
