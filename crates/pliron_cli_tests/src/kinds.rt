//! The commands on texts of a dialect by roles. `|` stands for the end of a line.
use crate::lines::in_one_line;
use crate::optimised::plain;
use pliron_dialect_arithmetic::ArithmeticKind;
use pliron_driver::KindNotation;
use pliron_driver_instrument::Timeless;
use pliron_show_commands::{
    CompareOptions, ExplainOptions, FlowOptions, Outcome, RunOptions, Source, check, compare,
    draw_flow, explain, opt, run,
};
use std::alloc::{AllocError, Global};
use std::process::Abort;

type Arithmetic = KindNotation<ArithmeticKind>;

/// Commands with their words, texts, and what is answered: the status, the output, and the report.
static CASES: &str = "\
check  => function { b0(): a = lit 2; return a } => 0 well linked and fit to run|
check  => function { b0(): jump b1() } => 2 error: unreadable text| --> text:1:23|  |\
|1 | function { b0(): jump b1() }|  |                       ^^ expected the name of a block that its region defines|
check  => function { b0(): retrun b1 } => 2 error: unreadable text| --> text:1:18|  |\
|1 | function { b0(): retrun b1 }|  |                  ^^^^^^ expected a kind of operations; is `return` meant?|
check  => function { b0(x): x = lit 1; return x } => 2 error: unreadable text| --> text:1:19|  |\
|1 | function { b0(x): x = lit 1; return x }|  |                   ^ expected \
a value's name that the text doesn't define before; it is defined at 1:15|
check  => function { b0(x): return x ) } => 2 error: unreadable text| --> text:1:28|  |\
|1 | function { b0(x): return x ) }|  |                            ^ expected the name of a value, `;` or `}`|
check  => function { b0(x): s = add x; return x } => 2 error: unreadable text| --> text:1:28|  |\
|1 | function { b0(x): s = add x; return x }|  |                            ^ expected the name of a value|
check  => function { b0(c): s = if c { t(): return c => 2 error: unreadable text| --> text:1:43|  |\
|1 | function { b0(c): s = if c { t(): return c|  |                                           ^ expected \
the name of a value, `;` or `}`; the `{` at 1:28 isn't closed|
check  => function { add(x): return x } => 2 error: unreadable text| --> text:1:12|  |\
|1 | function { add(x): return x }|  |            ^^^ expected \
the name of a block; `add` is reserved for a kind of operations|
check  => function { b0(x): s = if x { t(): return x }; return x } => 2 error: unreadable text| --> text:1:23|  |\
|1 | function { b0(x): s = if x { t(): return x }; return x }|  |                       ^^ expected \
an operation that the dialect admits, with so many operands, results and regions|
check  => function { b0(x): branch x b0(x } => 2 error: unreadable text| --> text:1:33|  |\
|1 | function { b0(x): branch x b0(x }|  |                                 ^ expected `,` or `)`|
check  => function { x = lit 1 } => 2 error: unreadable text| --> text:1:12|  |\
|1 | function { x = lit 1 }|  |            ^ expected a block, or `}`: operations stand in blocks, as `b0(): ..`|
check  => return => 0 well linked and fit to run|
check  => funtion { } => 2 error: unreadable text| --> text:1:1|  |\
|1 | funtion { }|  | ^^^^^^^ expected a kind of operations; is `function` meant?|
explain sccp => function { b0(): a = lit 2; b = lit 3; s = add a b; return s } => 0 1:40 s = add a b: folded to 5 by its operands (sccp)|\
1:53 return s: takes 5 for s (sccp)|
explain dce => function { b0(x): a = lit 2; return x } => 0 1:19 a = lit 2: unused (dce)|
run  => function { b0(): a = lit 2; b = lit 3; s = add a b; return s } => 0 ended with 5|
run  => function { b0(): x = lit 3; o = lit -1; r = while x { t(u): w = add u o; return w w }; return r } => 0 ended with 0|
run  => function { b0(): jump b1(); b1(): jump b1() } => 3 made no further move: steps or the world's answers were used up|\
note: the run was cut off| --> text:1:35|  |\
|1 | function { b0(): jump b1(); b1(): jump b1() }|  |                                   ^^^^^^^^^ the 100 moves that it may make were made|
compare sccp,dce => function { b0(): a = lit 2; b = lit 3; s = add a b; return s } => 0 ended with 5|the same before and after|
opt sccp,dce => function { b0(): a = lit 2; b = lit 3; s = add a b; return s } => 0 function { b0(): v0 = lit 5; return v0 }|
dot 0 => function { b0(c, x): branch c t(x) f(); t(p): return p; f(): return c } => 0 digraph flow {|  \
node [shape=\"box\", fontname=\"monospace\"];|  \
edge [fontname=\"monospace\"];|  \
0 [label=\"b0(c, x):\\lbranch c t(x) f()\\l\", peripheries=\"2\"];|  \
1 [label=\"t(p):\\lreturn p\\l\"];|  \
2 [label=\"f():\\lreturn c\\l\"];|  \
0 -> 1 [label=\" true: x \"];|  \
0 -> 2 [label=\" false \"];|}|
dot 1 => function { b0(): a = lit 2; return a } => 2 error: no region `1`|\
help: `0.2.0` is region 0 of operation 2 of region 0 of the text's operation|";

// What the command answers.
fn outcome_of(alloc: Global, words: &str, source: &Source) -> Result<Outcome, AllocError> {
    let (command, word) = words.split_once(' ').unwrap_or((words, ""));
    let without_inputs = RunOptions {
        inputs: &[],
        world: &[],
        steps: 100,
        trace: false,
        json: false,
    };
    match command {
        "check" => check::<Arithmetic>(alloc, source),
        "explain" => {
            let options = ExplainOptions {
                pipeline: word,
                missed: false,
                json: false,
            };
            explain::<Arithmetic>(alloc, source, &options)
        }
        "run" => run::<Arithmetic>(alloc, source, &without_inputs),
        "compare" => {
            let options = CompareOptions {
                run: without_inputs,
                pipeline: word,
            };
            compare::<Arithmetic>(alloc, source, &options)
        }
        "opt" => opt::<Arithmetic, Timeless>(alloc, source, &plain(word), Timeless),
        _ => {
            let options = FlowOptions {
                region: word,
                dominators: false,
                blocks_alone: false,
                nested: false,
                title: "",
            };
            draw_flow::<Arithmetic>(alloc, source, &options)
        }
    }
}

fn check_case(rt: &impl Abort, alloc: Global, case: &str) {
    let (words, rest) = case.split_once(" => ").expect(rt, "a case");
    let (text, wanted) = rest.split_once(" => ").expect(rt, "a case");
    let source = Source {
        name: "text",
        text: text.as_bytes(),
    };
    let outcome = outcome_of(alloc, words, &source).expect(rt, "memory");
    let output = in_one_line(alloc, &outcome.output).expect(rt, "memory");
    let report = in_one_line(alloc, outcome.report.as_bytes()).expect(rt, "memory");
    let status = outcome.status;
    let got = format!(in alloc; "{status} {output}{report}").expect(rt, "memory");
    assert_eq!(rt; got.as_str(), wanted, "{words}");
}

#[test]
fn commands_on_a_dialect_by_roles(rt: HostRuntime) {
    for case in CASES.lines() {
        check_case(&rt, rt.alloc(), case);
    }
}
