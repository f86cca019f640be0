//! What commands write as objects of JSON, worked by hand. `|` stands for the end of a line, and `~` for a quote.
use crate::lines::in_one_line;
use crate::optimised::plain;
use pliron_driver_instrument::Timeless;
use pliron_show_commands::{
    BenchNotation, Datum, ExplainOptions, Outcome, RunOptions, Source, explain, opt, run,
};
use std::alloc::{AllocError, Global};
use std::process::Abort;

/// Commands with their words, texts, and what is answered: the status, the output, and the report.
static CASES: &str = "\
explain sccp,dce => func { b0(): a = const 2; b = add a a; ret b } => 0 \
{~line~:1,~column~:27,~endLine~:1,~endColumn~:38,~subject~:~b = add a a~,~reason~:~folded to 4 by its operands~,~pass~:~sccp~}|\
{~line~:1,~column~:40,~endLine~:1,~endColumn~:45,~subject~:~ret b~,~reason~:~takes 4 for b~,~pass~:~sccp~}|\
{~line~:1,~column~:14,~endLine~:1,~endColumn~:25,~subject~:~a = const 2~,~reason~:~unused~,~pass~:~dce~}|\
{~line~:1,~column~:27,~endLine~:1,~endColumn~:38,~subject~:~b = add a a~,~reason~:~unused~,~pass~:~dce~}|
explain repeat<2>(dce,canonicalize) => func { b0(x): br b1(x); b1(p): ret p } => 0 \
{~line~:1,~column~:28,~endLine~:1,~endColumn~:29,~subject~:~argument p of b1~,~reason~:~always x~,~pass~:~canonicalize~,~run~:1}|\
{~line~:1,~column~:32,~endLine~:1,~endColumn~:37,~subject~:~ret p~,~reason~:~takes x for p~,~pass~:~canonicalize~,~run~:1}|\
{~line~:1,~column~:15,~endLine~:1,~endColumn~:23,~subject~:~br b1(x)~,~reason~:~passes x no more~,~pass~:~dce~,~run~:2}|\
{~line~:1,~column~:28,~endLine~:1,~endColumn~:29,~subject~:~argument p of b1~,~reason~:~unused~,~pass~:~dce~,~run~:2}|\
{~unfinished~:2}|
missed sccp => func { b0(x): y = add x x; ret y } => 0 \
{~line~:1,~column~:15,~endLine~:1,~endColumn~:26,~subject~:~y = add x x~,~reason~:~not folded: its operand 1, x, isn't known~,~pass~:~sccp~,~missed~:true}|
run  => func { b0(x): y = add x x; ret y } => 0 {~end~:~ended~,~values~:[6],~transitions~:4}|\
{~line~:1,~column~:1,~endLine~:1,~endColumn~:5,~operation~:~func~,~takes~:[3]}|\
{~line~:1,~column~:15,~endLine~:1,~endColumn~:26,~operation~:~y = add x x~,~takes~:[3,3]}|\
{~line~:1,~column~:28,~endLine~:1,~endColumn~:33,~operation~:~ret y~,~takes~:[6]}|\
{~line~:1,~column~:1,~endLine~:1,~endColumn~:5,~operation~:~func~,~takes~:[6]}|
stats dce => func { b0(): a = const 2; b = mul a a; ret } => 0 func { b0(): ret }|\
{~round~:1,~pass~:~dce~,~runs~:1,~changed~:1,~before~:{~operations~:4,~blocks~:1,~arguments~:0,~edges~:0},\
~after~:{~operations~:2,~blocks~:1,~arguments~:0,~edges~:0},~made~:0,~erased~:2,~moved~:0,~operandsChanged~:0,~blocksErased~:0,~argumentsErased~:0}|";

// What the command answers.
fn outcome_of(alloc: Global, words: &str, source: &Source) -> Result<Outcome, AllocError> {
    let (command, word) = words.split_once(' ').unwrap_or((words, ""));
    match command {
        "run" => {
            let options = RunOptions {
                inputs: &[Datum::Number(3)],
                world: &[Datum::Number(7)],
                steps: 20,
                trace: true,
                json: true,
            };
            run::<BenchNotation>(alloc, source, &options)
        }
        "stats" => {
            let mut options = plain(word);
            options.instrumentation.counts = true;
            options.json = true;
            opt::<BenchNotation, Timeless>(alloc, source, &options, Timeless)
        }
        _ => {
            let options = ExplainOptions {
                pipeline: word,
                missed: command == "missed",
                json: true,
            };
            explain::<BenchNotation>(alloc, source, &options)
        }
    }
}

// The text with `~` for each quote.
fn without_quotes(alloc: Global, text: &str) -> Result<String, AllocError> {
    let mut line = String::new(alloc);
    for letter in text.chars() {
        line.push(if letter == '"' { '~' } else { letter })?;
    }
    Ok(line)
}

fn check_case(rt: &impl Abort, alloc: Global, case: &str) {
    let (words, rest) = case.split_once(" => ").expect(rt, "a case");
    let (text, wanted) = rest.split_once(" => ").expect(rt, "a case");
    let source = Source {
        name: "text",
        text: text.as_bytes(),
    };
    let outcome = outcome_of(alloc, words, &source).expect(rt, "memory");
    let output = in_one_line(alloc, &outcome.output).expect(rt, "memory");
    let report = in_one_line(alloc, outcome.report.as_bytes()).expect(rt, "memory");
    let status = outcome.status;
    let got = format!(in alloc; "{status} {output}{report}").expect(rt, "memory");
    let got = without_quotes(alloc, got.as_str()).expect(rt, "memory");
    assert_eq!(rt; got.as_str(), wanted, "{words}");
}

#[test]
fn answers_are_objects(rt: HostRuntime) {
    for case in CASES.lines() {
        check_case(&rt, rt.alloc(), case);
    }
}
