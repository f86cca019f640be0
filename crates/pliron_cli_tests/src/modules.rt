//! The commands on modules of MLIR, worked by hand. `|` stands for the end of a line, and `~` for a quote.
use crate::lines::{in_one_line, with_quotes};
use crate::optimised::plain;
use pliron_driver_instrument::{PipelineText, Timeless};
use pliron_show_changes::{StageOptions, StageReport, run_stages, write_renamed_answer};
use pliron_show_commands::{
    ExplainOptions, FlowOptions, MessageForm, Outcome, Source, check, draw_flow, explain, in_form,
    opt,
};
use pliron_show_mlir::{MlirNotation, module_range};
use std::alloc::{AllocError, Global};
use std::process::Abort;

/// Commands with their words, texts, and what is answered: the status, the output, and the report in its short form.
static CASES: &str = "\
check  => ~builtin.module~() ({ ~func.func~() <{function_type = (i32) -> i32, sym_name = ~f~}> ({ ^bb0(%a: i32): ~func.return~(%a) : (i32) -> () }) : () -> () ~func.func~() <{function_type = (i32) -> i32, sym_name = ~g~}> ({ ^bb0(%a: i32): ~func.return~(%a) : (i32) -> () }) : () -> () }) : () -> () => 0 fit to run, each part by itself|
check  => ~func.func~() <{function_type = (i32) -> i32, sym_name = ~f~}> ({ ^bb0(%a: i32): ~func.return~(%a) : (i32) -> () }) : () -> () => 0 well linked and fit to run|
check  => ~builtin.module~() ({ ~a~(%x) : (i32) -> () }) : () -> () => 2 text:1:27: error: unreadable text: expected a value that is defined here or around|
check  => func.func @f() { => 2 text:1:1: error: unreadable text: expected the name of an operation in quotes; print with --mlir-print-op-generic|
check  => ~func.func~() <{function_type = () -> i32, sym_name = ~f~}> ({ %b = ~arith.addi~(%a, %a) : (i32, i32) -> i32 %a = ~arith.constant~() <{value = 2 : i32}> : () -> i32 ~func.return~(%b) : (i32) -> () }) : () -> () => 3 text:1:82: error: an operand isn't defined on each way to this operation: operand 1, `%a`, may not be defined yet when this runs|text:1:110: note: `%a` is defined here|text:1:86: error: an operand isn't defined on each way to this operation: operand 2, `%a`, may not be defined yet when this runs|text:1:110: note: `%a` is defined here|
check  => ~builtin.module~() ({ ~func.func~() <{function_type = (i32) -> i32, sym_name = ~f~}> ({ ^bb0(%a: i32): ~func.return~(%a) : (i32) -> () }) : () -> () ~func.func~() <{function_type = () -> i32, sym_name = ~f~}> ({ %b = ~arith.addi~(%a, %a) : (i32, i32) -> i32 %a = ~arith.constant~() <{value = 2 : i32}> : () -> i32 ~func.return~(%b) : (i32) -> () }) : () -> () }) : () -> () => 3 text:1:231: error: an operand isn't defined on each way to this operation: operand 1, `%a`, may not be defined yet when this runs|text:1:259: note: `%a` is defined here|text:1:235: error: an operand isn't defined on each way to this operation: operand 2, `%a`, may not be defined yet when this runs|text:1:259: note: `%a` is defined here|
check  => ~func.func~() <{function_type = () -> (), sym_name = ~f~}> ({ ~cf.br~()[^out] : () -> () ^out(%p: i32): ~func.return~() : () -> () }) : () -> () => 3 text:1:73: error: an edge passes another number of values than its block takes: edge 1 passes 0, and its block takes 1|text:1:90: note: this block takes 1|
explain sccp,dce => ~func.func~() <{function_type = () -> i32, sym_name = ~f~}> ({ %a = ~arith.constant~() <{value = 2 : i32}> : () -> i32 %b = ~arith.constant~() <{value = 3 : i32}> : () -> i32 %s = ~arith.addi~(%a, %b) : (i32, i32) -> i32 ~func.return~(%s) : (i32) -> () }) : () -> () => 0 1:176 %s = ~arith.addi~(%a, %b) : (i32, i32) -> i32: folded to 5 : i32 by its operands (sccp)|1:222 ~func.return~(%s) : (i32) -> (): takes 5 : i32 for %s (sccp)|1:64 %a = ~arith.constant~() <{value = 2 : i32}> : () -> i32: unused (dce)|1:120 %b = ~arith.constant~() <{value = 3 : i32}> : () -> i32: unused (dce)|1:176 %s = ~arith.addi~(%a, %b) : (i32, i32) -> i32: unused (dce)|
explain simplify-cfg => ~func.func~() <{function_type = (i32, i32) -> i32, sym_name = ~f~}> ({ ^start(%x: i32, %y: i32): %c = ~arith.constant~() <{value = true}> : () -> i1 ~cf.cond_br~(%c, %x, %y)[^yes, ^no] <{operandSegmentSizes = array<i32: 1, 1, 1>}> : (i1, i32, i32) -> () ^yes(%p: i32): ~func.return~(%p) : (i32) -> () ^no(%q: i32): ~func.return~(%q) : (i32) -> () }) : () -> () => 0 1:150 ~cf.cond_br~(%c, %x, %y)[^yes, ^no] <{operandSegmentSizes =  ..: always goes to ^yes (simplify-cfg)|1:306 argument %q of ^no: unreachable (simplify-cfg)|1:316 ~func.return~(%q) : (i32) -> (): unreachable (simplify-cfg)|1:260 argument %p of ^yes: merged, it is %x (simplify-cfg)|1:270 ~func.return~(%p) : (i32) -> (): merged into ^start, takes %x for %p (simplify-cfg)|
missed sccp,dce => ~func.func~() <{function_type = () -> i32, sym_name = ~f~}> ({ %p:2 = ~test.pair~() : () -> (i32, i32) %k = ~arith.constant~() <{value = 7 : i32}> : () -> i32 %s = ~arith.addi~(%p#1, %k) : (i32, i32) -> i32 %r = ~func.call~() <{callee = @g}> : () -> i32 ~func.return~(%s) : (i32) -> () }) : () -> () => 0 1:160 %s = ~arith.addi~(%p#1, %k) : (i32, i32) -> i32: not folded: its operand 1, %p#1, isn't known (missed by sccp)|1:208 %r = ~func.call~() <{callee = @g}> : () -> i32: stays, though nothing uses it: a func.call has side effects (missed by dce)|
dot 0 => ~func.func~() <{function_type = (i1, i32, i32) -> i32, sym_name = ~f~}> ({ ^start(%c: i1, %x: i32, %y: i32): ~cf.cond_br~(%c, %x, %y)[^yes, ^no] <{operandSegmentSizes = array<i32: 1, 1, 1>}> : (i1, i32, i32) -> () ^yes(%p: i32): ~func.return~(%p) : (i32) -> () ^no(%q: i32): ~func.return~(%q) : (i32) -> () }) : () -> () => 0 digraph flow {|  node [shape=~box~, fontname=~monospace~];|  edge [fontname=~monospace~];|  0 [label=~^start(%c: i1, %x: i32, %y: i32):\\l\\~cf.cond_br\\~(%c, %x, %y)[^yes, ^no] <{operandSegmentSizes = array<i32: 1, 1, 1>}> : (i1, i32, i32) -> ()\\l~, peripheries=~2~];|  1 [label=~^yes(%p: i32):\\l\\~func.return\\~(%p) : (i32) -> ()\\l~];|  2 [label=~^no(%q: i32):\\l\\~func.return\\~(%q) : (i32) -> ()\\l~];|  0 -> 1 [label=~ true: %x ~];|  0 -> 2 [label=~ false: %y ~];|}|
dot 0 => ~func.func~() <{function_type = () -> i32, sym_name = ~f~}> ({ %x = ~arith.constant~() <{value = 4 : i32}> : () -> i32 %y = ~arith.constant~() <{value = 5 : i32}> : () -> i32 ~cf.switch~(%x, %x, %y)[^d, ^one, ^two] <{case_operand_segments = array<i32: 0, 1>, case_values = dense<[1, -2]> : tensor<2xi32>, operandSegmentSizes = array<i32: 1, 1, 1>}> : (i32, i32, i32) -> () ^d(%p: i32): ~func.return~(%p) : (i32) -> () ^one: ~func.return~(%x) : (i32) -> () ^two(%q: i32): ~func.return~(%q) : (i32) -> () }) : () -> () => 0 digraph flow {|  node [shape=~box~, fontname=~monospace~];|  edge [fontname=~monospace~];|  0 [label=~entry:\\l%x = \\~arith.constant\\~() <{value = 4 : i32}> : () -> i32\\l%y = \\~arith.constant\\~() <{value = 5 : i32}> : () -> i32\\l\\~cf.switch\\~(%x, %x, %y)[^d, ^one, ^two] <{case_operand_segments = array<i32: 0, 1>, case_values = dense<[1, -2]> : tensor<2xi32>, operandSegmentSizes = array<i32: 1, 1, 1>}> : (i32, i32, i32) -> ()\\l~, peripheries=~2~];|  1 [label=~^d(%p: i32):\\l\\~func.return\\~(%p) : (i32) -> ()\\l~];|  2 [label=~^one:\\l\\~func.return\\~(%x) : (i32) -> ()\\l~];|  3 [label=~^two(%q: i32):\\l\\~func.return\\~(%q) : (i32) -> ()\\l~];|  0 -> 1 [label=~ default: %x ~];|  0 -> 2 [label=~ 1 ~];|  0 -> 3 [label=~ -2: %y ~];|}|
dot 0.1.0 => ~builtin.module~() ({ ~func.func~() <{function_type = (i32) -> i32, sym_name = ~f~}> ({ ^bb0(%a: i32): ~func.return~(%a) : (i32) -> () }) : () -> () ~func.func~() <{function_type = (i32) -> i32, sym_name = ~g~}> ({ ^bb0(%a: i32): ~func.return~(%a) : (i32) -> () }) : () -> () }) : () -> () => 0 digraph flow {|  node [shape=~box~, fontname=~monospace~];|  edge [fontname=~monospace~];|  2 [label=~^bb0(%a: i32):\\l\\~func.return\\~(%a) : (i32) -> ()\\l~, peripheries=~2~];|}|
dot 0 => ~builtin.module~() ({ ~func.func~() <{function_type = (i32) -> i32, sym_name = ~f~}> ({ ^bb0(%a: i32): ~func.return~(%a) : (i32) -> () }) : () -> () ~func.func~() <{function_type = (i32) -> i32, sym_name = ~g~}> ({ ^bb0(%a: i32): ~func.return~(%a) : (i32) -> () }) : () -> () }) : () -> () => 0 digraph flow {|  node [shape=~box~, fontname=~monospace~];|  edge [fontname=~monospace~];|  0 [label=~entry:\\l\\~func.func\\~() <{function_type = (i32) -> i32, sym_name = \\~f\\~}> { 0.0.0 }\\l\\~func.func\\~() <{function_type = (i32) -> i32, sym_name = \\~g\\~}> { 0.1.0 }\\l~, peripheries=~2~];|}|
opt sccp,dce => ~func.func~() <{function_type = () -> i32, sym_name = ~f~}> ({ %a = ~arith.constant~() <{value = 2 : i32}> : () -> i32 %b = ~arith.constant~() <{value = 3 : i32}> : () -> i32 %s = ~arith.addi~(%a, %b) : (i32, i32) -> i32 ~func.return~(%s) : (i32) -> () }) : () -> () => 0 ~func.func~() <{function_type = () -> i32, sym_name = ~f~}> ({|  %3 = ~arith.constant~() <{value = 5 : i32}> : () -> i32|  ~func.return~(%3) : (i32) -> ()|}) : () -> ()|
opt cse => func.func @f() { => 2 text:1:1: error: unreadable text: expected the name of an operation in quotes; print with --mlir-print-op-generic|
explain cse => ~func.func~() <{function_type = () -> i32, sym_name = ~f~}> ({ ~test.two~() : () -> (i32, i32) %h = ~arith.constant~() <{value = 5.000000e-01 : f32}> : () -> f32 %i = ~arith.constant~() <{value = 5.000000e-01 : f32}> : () -> f32 ~test.use~(%h, %i) : (f32, f32) -> () loc(~a b~) %a = ~arith.constant~() <{value = 1 : i32}> : () -> i32 ~func.return~(%a) : (i32) -> () }) : () -> () => 0 1:163 %i = ~arith.constant~() <{value = 5.000000e-01 : f32}> : ()  ..: computed already, as %h (cse)|1:230 ~test.use~(%h, %i) : (f32, f32) -> () loc(~a b~): takes %h for %i (cse)|";

// What the command answers.
fn outcome_of(alloc: Global, words: &str, source: &Source) -> Result<Outcome, AllocError> {
    let (command, word) = words.split_once(' ').unwrap_or((words, ""));
    match command {
        "check" => check::<MlirNotation>(alloc, source),
        "opt" => opt::<MlirNotation, Timeless>(alloc, source, &plain(word), Timeless),
        "dot" => {
            let options = FlowOptions {
                region: word,
                dominators: false,
                blocks_alone: false,
                nested: false,
                title: "",
            };
            draw_flow::<MlirNotation>(alloc, source, &options)
        }
        _ => {
            let options = ExplainOptions {
                pipeline: word,
                missed: command == "missed",
                json: false,
            };
            explain::<MlirNotation>(alloc, source, &options)
        }
    }
}

fn check_case(rt: &impl Abort, alloc: Global, case: &str) {
    let case = with_quotes(alloc, case).expect(rt, "memory");
    let (words, rest) = case.as_str().split_once(" => ").expect(rt, "a case");
    let (text, wanted) = rest.split_once(" => ").expect(rt, "a case");
    let source = Source {
        name: "text",
        text: text.as_bytes(),
    };
    let outcome = outcome_of(alloc, words, &source).expect(rt, "memory");
    let output = in_one_line(alloc, &outcome.output).expect(rt, "memory");
    let report = in_form(alloc, outcome.report.as_str(), MessageForm::Short).expect(rt, "memory");
    let report = in_one_line(alloc, report.as_bytes()).expect(rt, "memory");
    let status = outcome.status;
    let got = format!(in alloc; "{status} {output}{report}").expect(rt, "memory");
    assert_eq!(rt; got.as_str(), wanted, "{words}");
}

#[test]
fn commands_on_modules(rt: HostRuntime) {
    for case in CASES.lines() {
        check_case(&rt, rt.alloc(), case);
    }
}

/// Lists of passes, texts, what is reported of the lines that each run changed, and the answer with the text's names.
static CHANGED: &str = "\
sccp,dce => ~func.func~() <{function_type = () -> i32, sym_name = ~f~}> ({ %a = ~arith.constant~() <{value = 2 : i32}> : () -> i32 %b = ~arith.constant~() <{value = 3 : i32}> : () -> i32 %s = ~arith.addi~(%a, %b) : (i32, i32) -> i32 ~func.return~(%s) : (i32) -> () }) : () -> () => --- run 1, changed by sccp|  ..|   %a = ~arith.constant~() <{value = 2 : i32}> : () -> i32|   %b = ~arith.constant~() <{value = 3 : i32}> : () -> i32|+  %s_1 = ~arith.constant~() <{value = 5 : i32}> : () -> i32|   %s = ~arith.addi~(%a, %b) : (i32, i32) -> i32|-  ~func.return~(%s) : (i32) -> ()|+  ~func.return~(%s_1) : (i32) -> ()| }) : () -> ()|--- run 2, changed by dce| ~func.func~() <{function_type = () -> i32, sym_name = ~f~}> ({|-  %a = ~arith.constant~() <{value = 2 : i32}> : () -> i32|-  %b = ~arith.constant~() <{value = 3 : i32}> : () -> i32|   %s_1 = ~arith.constant~() <{value = 5 : i32}> : () -> i32|-  %s = ~arith.addi~(%a, %b) : (i32, i32) -> i32|   ~func.return~(%s_1) : (i32) -> ()| }) : () -> ()| => ~func.func~() <{function_type = () -> i32, sym_name = ~f~}> ({|  %s_1 = ~arith.constant~() <{value = 5 : i32}> : () -> i32|  ~func.return~(%s_1) : (i32) -> ()|}) : () -> ()|
cse => ~test.root~() ({ %4:2 = ~test.pair~() <{text = ~%4 ^bb1~}> : () -> (i32, i32) %5 = ~arith.muli~(%4#0, %4#1) : (i32, i32) -> i32 %6 = ~arith.muli~(%4#0, %4#1) : (i32, i32) -> i32 ~cf.br~(%6)[^out] : (i32) -> () ^out(%7: i32): ~test.end~(%7) : (i32) -> () }) : () -> () => --- run 1, changed by cse|  ..|   %v4_1, %v4_2 = ~test.pair~() <{text = ~%4 ^bb1~}> : () -> (i32, i32)|   %5 = ~arith.muli~(%v4_1, %v4_2) : (i32, i32) -> i32|-  %6 = ~arith.muli~(%v4_1, %v4_2) : (i32, i32) -> i32|-  ~cf.br~(%6)[^out] : (i32) -> ()|+  ~cf.br~(%5)[^out] : (i32) -> ()| ^out(%7: i32):|   ~test.end~(%7) : (i32) -> ()|  ..| => ~test.root~() ({|  %v4_1, %v4_2 = ~test.pair~() <{text = ~%4 ^bb1~}> : () -> (i32, i32)|  %5 = ~arith.muli~(%v4_1, %v4_2) : (i32, i32) -> i32|  ~cf.br~(%5)[^out] : (i32) -> ()|^out(%7: i32):|  ~test.end~(%7) : (i32) -> ()|}) : () -> ()|";

fn staged(rt: &impl Abort, alloc: Global, list: &str, text: &str) -> StageReport {
    let options = StageOptions {
        is_pretty: false,
        keeps_names: true,
        prints_before: &[],
        prints_after: &[],
        prints_all: false,
        reports_changes: true,
        is_coloured: false,
    };
    let plan = PipelineText::read(alloc, list).expect(rt, "a plan");
    let staged = run_stages::<MlirNotation>(alloc, text.as_bytes(), &plan, &options);
    staged.expect(rt, "memory").expect(rt, "a module")
}

fn check_changes(rt: &impl Abort, alloc: Global, case: &str) {
    let case = with_quotes(alloc, case).expect(rt, "memory");
    let (list, rest) = case.as_str().split_once(" => ").expect(rt, "a list");
    let (text, wanted) = rest.split_once(" => ").expect(rt, "a case");
    let source = Source {
        name: "text",
        text: text.as_bytes(),
    };
    let staged = staged(rt, alloc, list, text);
    let report = in_one_line(alloc, staged.report.as_bytes()).expect(rt, "memory");
    let answer = opt::<MlirNotation, Timeless>(alloc, &source, &plain(list), Timeless);
    let answer = answer.expect(rt, "memory");
    let answer = std::str::from_utf8(&answer.output).unwrap_or("");
    let written = write_renamed_answer::<MlirNotation>(alloc, answer, staged.named.as_deref());
    let written = written.expect(rt, "memory");
    let written = in_one_line(alloc, &written).expect(rt, "memory");
    let got = format!(in alloc; "{report} => {written}").expect(rt, "memory");
    assert_eq!(rt; got.as_str(), wanted, "{list}");
}

#[test]
fn changes_keep_names(rt: HostRuntime) {
    for case in CHANGED.lines() {
        check_changes(&rt, rt.alloc(), case);
    }
}

// An answer is written as it is where the named text says something else.
#[test]
fn other_modules_are_no_names(rt: HostRuntime) {
    let answer = with_quotes(rt.alloc(), "~m~() ({ %7 = ~a~() : () -> i32 }) : () -> ()");
    let answer = answer.expect(&rt, "memory");
    for named in [
        None,
        Some("~m~() ({ %x = ~b~() : () -> i32 }) : () -> ()"),
        Some("~m~() ({ %x = ~a~() : () -> i64 }) : () -> ()"),
        Some("~m~() ({ %x = ~a~("),
    ] {
        let named = match named {
            Some(named) => Some(with_quotes(rt.alloc(), named).expect(&rt, "memory")),
            None => None,
        };
        let written = write_renamed_answer::<MlirNotation>(
            rt.alloc(),
            answer.as_str(),
            named.as_deref(),
        );
        let written = written.expect(&rt, "memory");
        assert!(rt; written.as_slice() == answer.as_bytes());
    }
}

/// A module, with blanks where lines end.
static MODULE: &str = "~builtin.module~() ({ \
~func.func~() <{function_type = (i32) -> i32, sym_name = ~f~}> ({ ^bb0(%a: i32): ~func.return~(%a) : (i32) -> () }) : () -> () \
~func.func~() <{function_type = () -> (), sym_name = ~g~}> ({ ~cf.br~()[^b] : () -> () ^b: \
~test.if~() ({ ~test.a~() : () -> () }, { ~test.b~() {at = ~})~} : () -> () loc(~x~) }) \
{k = 1 : i32} : () -> () loc(unknown) ~func.return~() : () -> () }) : () -> () }) : () -> ()";

/// Paths, and the operations of the module that they lead to.
static PATHS: &str = "\
0 => all
0.0 => ~func.func~() <{function_type = (i32) -> i32, sym_name = ~f~}> ({ ^bb0(%a: i32): ~func.return~(%a) : (i32) -> () }) : () -> ()
0.1.0 => ~func.func~() <{function_type = () -> (), sym_name = ~g~}> ({ ~cf.br~()[^b] : () -> () ^b: ~test.if~() ({ ~test.a~() : () -> () }, { ~test.b~() {at = ~})~} : () -> () loc(~x~) }) {k = 1 : i32} : () -> () loc(unknown) ~func.return~() : () -> () }) : () -> ()
0.1.0.1 => ~test.if~() ({ ~test.a~() : () -> () }, { ~test.b~() {at = ~})~} : () -> () loc(~x~) }) {k = 1 : i32} : () -> () loc(unknown)
0.1.0.1.1.0 => ~test.b~() {at = ~})~} : () -> () loc(~x~)
0.1.0.2 => ~func.return~() : () -> ()
0.2 => none
1 => none
0.1.0.1.2.0 => none
0.x => none";

#[test]
fn paths_lead_to_operations(rt: HostRuntime) {
    let alloc = rt.alloc();
    let text = with_quotes(alloc, MODULE).expect(&rt, "memory");
    let bytes = text.as_bytes();
    for case in PATHS.lines() {
        let (path, wanted) = case.split_once(" => ").expect(&rt, "a case");
        let wanted = with_quotes(alloc, wanted).expect(&rt, "memory");
        let found = module_range(alloc, bytes, path).expect(&rt, "memory");
        let part = match found {
            Some(part) if part.len == bytes.len() => b"all".as_slice(),
            Some(part) => &bytes[part.start..part.start + part.len],
            None => b"none".as_slice(),
        };
        assert!(rt; part == wanted.as_bytes(), "{path}");
    }
}

#[test]
fn an_unreadable_text_is_taken_whole(rt: HostRuntime) {
    let found = module_range(rt.alloc(), b"\"m\"() ({", "0.1").expect(&rt, "memory");
    assert!(rt; found.is_some_and(|part| part.start == 0 && part.len == 8));
}
