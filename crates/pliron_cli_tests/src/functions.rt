//! Runs of functions of MLIR. What the functions in C compute is from LLVM: `gcd`, `popcount`, `walk`, `quotient` and `next`
//! were compiled by clang 22 (`sroa`, `mem2reg`, `mlir-translate`), and their values are those of the same program by
//! `lli`; the others are worked by hand by LLVM's language reference. `|` stands for the end of a line, and `~` for a quote.
use crate::lines::{in_one_line, with_quotes};
use pliron_driver::Notation;
use pliron_show_commands::{
    CompareOptions, Datum, MessageForm, Outcome, RunOptions, Runnable, Source, compare, in_form,
    run,
};
use pliron_show_mlir::{MlirNotation, functions_of};
use std::alloc::Global;
use std::process::Abort;

/// Names of functions, and their texts.
static FUNCTIONS: &str = "\
gcd = ~llvm.func~() <{function_type = !llvm.func<i32 (i32, i32)>, sym_name = ~gcd~}> ({ ^bb0(%a: i32, %b: i32): \
%0 = ~llvm.mlir.constant~() <{value = 0 : i32}> : () -> i32 ~llvm.br~(%b, %a)[^bb1] : (i32, i32) -> () \
^bb1(%c: i32, %d: i32): %1 = ~llvm.icmp~(%c, %0) <{predicate = 1 : i64}> : (i32, i32) -> i1 \
~llvm.cond_br~(%1)[^bb2, ^bb3] <{operandSegmentSizes = array<i32: 1, 0, 0>}> : (i1) -> () \
^bb2: %2 = ~llvm.urem~(%d, %c) : (i32, i32) -> i32 ~llvm.br~(%2, %c)[^bb1] : (i32, i32) -> () \
^bb3: ~llvm.return~(%d) : (i32) -> () }) : () -> ()
popcount = ~llvm.func~() <{function_type = !llvm.func<i32 (i64)>, sym_name = ~popcount~}> ({ ^bb0(%a: i64): \
%0 = ~llvm.mlir.constant~() <{value = 0 : i32}> : () -> i32 %1 = ~llvm.mlir.constant~() <{value = 0 : i64}> : () -> i64 \
%2 = ~llvm.mlir.constant~() <{value = 1 : i64}> : () -> i64 %3 = ~llvm.mlir.constant~() <{value = 1 : i32}> : () -> i32 \
~llvm.br~(%a, %0)[^bb1] : (i64, i32) -> () \
^bb1(%x: i64, %n: i32): %4 = ~llvm.icmp~(%x, %1) <{predicate = 1 : i64}> : (i64, i64) -> i1 \
~llvm.cond_br~(%4)[^bb2, ^bb3] <{operandSegmentSizes = array<i32: 1, 0, 0>}> : (i1) -> () \
^bb2: %5 = ~llvm.sub~(%x, %2) <{overflowFlags = 0 : i32}> : (i64, i64) -> i64 %6 = ~llvm.and~(%x, %5) : (i64, i64) -> i64 \
%7 = ~llvm.add~(%n, %3) <{overflowFlags = 1 : i32}> : (i32, i32) -> i32 ~llvm.br~(%6, %7)[^bb1] : (i64, i32) -> () \
^bb3: ~llvm.return~(%n) : (i32) -> () }) : () -> ()
walk = ~llvm.func~() <{function_type = !llvm.func<i32 (i32)>, sym_name = ~walk~}> ({ ^bb0(%a: i32): \
%6 = ~llvm.mlir.constant~() <{value = 0 : i32}> : () -> i32 %7 = ~llvm.mlir.constant~() <{value = 5 : i32}> : () -> i32 \
%8 = ~llvm.mlir.constant~() <{value = 11 : i32}> : () -> i32 %9 = ~llvm.mlir.constant~() <{value = 7 : i32}> : () -> i32 \
%10 = ~llvm.mlir.constant~() <{value = 3 : i32}> : () -> i32 %11 = ~llvm.mlir.constant~() <{value = 2 : i32}> : () -> i32 \
%12 = ~llvm.mlir.constant~() <{value = 1 : i32}> : () -> i32 ~llvm.br~(%6, %6)[^bb1] : (i32, i32) -> () \
^bb1(%13: i32, %14: i32): %15 = ~llvm.icmp~(%14, %a) <{predicate = 2 : i64}> : (i32, i32) -> i1 \
~llvm.cond_br~(%15)[^bb2, ^bb8] <{operandSegmentSizes = array<i32: 1, 0, 0>}> : (i1) -> () \
^bb2: %16 = ~llvm.srem~(%14, %7) : (i32, i32) -> i32 \
~llvm.switch~(%16)[^bb6, ^bb3, ^bb4, ^bb5] <{case_operand_segments = array<i32: 0, 0, 0>, \
case_values = dense<[0, 1, 3]> : vector<3xi32>, operandSegmentSizes = array<i32: 1, 0, 0>}> : (i32) -> () \
^bb3: %17 = ~llvm.add~(%13, %10) <{overflowFlags = 1 : i32}> : (i32, i32) -> i32 ~llvm.br~(%17)[^bb7] : (i32) -> () \
^bb4: %18 = ~llvm.xor~(%13, %9) : (i32, i32) -> i32 ~llvm.br~(%18)[^bb7] : (i32) -> () \
^bb5: %19 = ~llvm.sub~(%13, %8) <{overflowFlags = 1 : i32}> : (i32, i32) -> i32 ~llvm.br~(%19)[^bb7] : (i32) -> () \
^bb6: %20 = ~llvm.mul~(%13, %11) <{overflowFlags = 1 : i32}> : (i32, i32) -> i32 ~llvm.br~(%20)[^bb7] : (i32) -> () \
^bb7(%21: i32): %22 = ~llvm.add~(%14, %12) <{overflowFlags = 1 : i32}> : (i32, i32) -> i32 \
~llvm.br~(%21, %22)[^bb1] : (i32, i32) -> () ^bb8: ~llvm.return~(%13) : (i32) -> () }) : () -> ()
quotient = ~llvm.func~() <{function_type = !llvm.func<i32 (i32, i32)>, sym_name = ~quotient~}> ({ ^bb0(%a: i32, %b: i32): \
%0 = ~llvm.sdiv~(%a, %b) : (i32, i32) -> i32 ~llvm.return~(%0) : (i32) -> () }) : () -> ()
next = ~llvm.func~() <{function_type = !llvm.func<i32 (i32)>, sym_name = ~next~}> ({ ^bb0(%a: i32): \
%0 = ~llvm.mlir.constant~() <{value = 1 : i32}> : () -> i32 %1 = ~llvm.add~(%a, %0) <{overflowFlags = 1 : i32}> : (i32, i32) -> i32 \
~llvm.return~(%1) : (i32) -> () }) : () -> ()
grows = ~llvm.func~() <{function_type = !llvm.func<i1 (i8)>, sym_name = ~grows~}> ({ ^bb0(%a: i8): \
%0 = ~llvm.mlir.constant~() <{value = 1 : i8}> : () -> i8 %1 = ~llvm.add~(%a, %0) <{overflowFlags = 2 : i32}> : (i8, i8) -> i8 \
%2 = ~llvm.icmp~(%a, %1) <{predicate = 6 : i64}> : (i8, i8) -> i1 \
~llvm.cond_br~(%2)[^bb1, ^bb2] <{operandSegmentSizes = array<i32: 1, 0, 0>}> : (i1) -> () \
^bb1: ~llvm.return~(%2) : (i1) -> () ^bb2: ~llvm.unreachable~() : () -> () }) : () -> ()
load = ~llvm.func~() <{function_type = !llvm.func<i32 (ptr)>, sym_name = ~load~}> ({ ^bb0(%p: !llvm.ptr): \
%0 = ~llvm.mlir.constant~() <{value = 1 : i32}> : () -> i32 %1 = ~llvm.load~(%p) <{ordering = 0 : i64}> : (!llvm.ptr) -> i32 \
%2 = ~llvm.add~(%1, %0) <{overflowFlags = 0 : i32}> : (i32, i32) -> i32 \
~llvm.store~(%2, %p) <{ordering = 0 : i64}> : (i32, !llvm.ptr) -> () \
%3 = ~llvm.call~(%2) <{callee = @f, fastmathFlags = #llvm.fastmath<none>, op_bundle_sizes = array<i32>, \
operandSegmentSizes = array<i32: 1, 0>}> : (i32) -> i32 ~llvm.return~(%3) : (i32) -> () }) : () -> ()
index = ~func.func~() <{function_type = (index) -> (index, i64, f32), sym_name = ~index~}> ({ ^bb0(%a: index): \
%0 = ~arith.constant~() <{value = 3 : index}> : () -> index %1 = ~arith.muli~(%a, %0) <{overflowFlags = #arith.overflow<none>}> : (index, index) -> index \
%2 = ~arith.index_cast~(%1) : (index) -> i64 %3 = ~arith.constant~() <{value = 1.5 : f32}> : () -> f32 \
~func.return~(%1, %2, %3) : (index, i64, f32) -> () }) : () -> ()
choice = ~func.func~() <{function_type = (i1, i8) -> i8, sym_name = ~choice~}> ({ ^bb0(%c: i1, %x: i8): \
%0 = ~scf.if~(%c) ({ ~scf.yield~(%x) : (i8) -> () }, { %1 = ~arith.addi~(%x, %x) <{overflowFlags = #arith.overflow<none>}> : (i8, i8) -> i8 ~scf.yield~(%1) : (i8) -> () }) : (i1) -> i8 \
~func.return~(%0) : (i8) -> () }) : () -> ()";

/// Functions with what they get, behind `/` what the world answers, and what comes of their runs of at most 300 moves: the
/// status, the output, and the report in its short form.
static RUNS: &str = "\
gcd 1071:i32 462:i32 => 0 ended with 21 : i32|
gcd 4294967295:i32 65535:i32 => 0 ended with 65535 : i32|
gcd 17:i32 5:i32 => 0 ended with 1 : i32|
popcount 255 => 0 ended with 8 : i32|
popcount 16045690984503111693:i64 => 0 ended with 42 : i32|
popcount 0 => 0 ended with 0 : i32|
walk 0:i32 => 0 ended with 0 : i32|
walk 7:i32 => 0 ended with -6 : i32|
walk 12:i32 => 0 ended with -46 : i32|
walk 23:i32 => 0 ended with -1692 : i32|
quotient -7:i32 2:i32 => 0 ended with -3 : i32|
quotient 7:i32 -2:i32 => 0 ended with -3 : i32|
quotient 7:i32 0:i32 => 0 ended with ()|text:1:112: note: no number comes of this: the divisor is 0|
quotient -2147483648:i32 -1:i32 => 0 ended with ()|text:1:112: note: no number comes of this: the quotient doesn't fit in its width|
next 41:i32 => 0 ended with 42 : i32|
next 2147483647:i32 => 0 ended with ()|text:1:154: note: no number comes of this: its flags promise another result|
grows 4:i8 => 0 ended with true|
grows -1:i8 => 3 trapped|text:1:285: error: the run trapped: what it branches on is no number|\
text:1:150: note: no number comes of this: its flags promise another result|
load 64 / 41:i32 () 7:i32 => 0 effect llvm.load 64 : i64|effect llvm.store 42 : i32, 64 : i64|effect llvm.call @f 42 : i32|ended with 7 : i32|
load 64 => 3 effect llvm.load 64 : i64|made no further move: steps or the world's answers were used up|\
text:1:160: note: the run was cut off: the world has no answer to effect 1|
index 5:index => 0 ended with 15 : index, 15 : i64, 1.5 : f32|
choice true 7:i8 / ^0,7:i8 end,7:i8 => 0 effect scf.if true|effect a region gave 7 : i8|ended with 7 : i8|
choice false 100:i8 / ^1 end,-56:i8 => 0 effect scf.if false|effect a region gave -56 : i8|ended with -56 : i8|";

// The data that these words say.
fn inputs_of(rt: &impl Abort, alloc: Global, words: &str) -> Vec<Datum> {
    let mut data = Vec::new(alloc);
    for word in words.split_ascii_whitespace() {
        let datum = MlirNotation::input_of_word(alloc, word).expect(rt, "memory");
        data.push(datum.expect(rt, "an input")).expect(rt, "memory");
    }
    data
}

// The answers that these words say.
fn answers_of(rt: &impl Abort, alloc: Global, words: &str) -> Vec<Datum> {
    let mut data = Vec::new(alloc);
    for word in words.split_ascii_whitespace() {
        let datum = MlirNotation::answer_of_word(alloc, word).expect(rt, "memory");
        data.push(datum.expect(rt, "an answer"))
            .expect(rt, "memory");
    }
    data
}

// The text of the function of this name.
fn text_of(rt: &impl Abort, alloc: Global, name: &str) -> String {
    for line in FUNCTIONS.lines() {
        let (own, text) = line.split_once(" = ").expect(rt, "a function");
        if own == name {
            return with_quotes(alloc, text).expect(rt, "memory");
        }
    }
    String::new(alloc)
}

// The status, the output and the report.
fn written(rt: &impl Abort, alloc: Global, outcome: &Outcome) -> String {
    let output = in_one_line(alloc, &outcome.output).expect(rt, "memory");
    let report = in_form(alloc, outcome.report.as_str(), MessageForm::Short).expect(rt, "memory");
    let report = in_one_line(alloc, report.as_bytes()).expect(rt, "memory");
    let status = outcome.status;
    format!(in alloc; "{status} {output}{report}").expect(rt, "memory")
}

fn check_run(rt: &impl Abort, alloc: Global, case: &str) {
    let (words, wanted) = case.split_once(" => ").expect(rt, "a case");
    let (words, world) = words.split_once(" / ").unwrap_or((words, ""));
    let (name, words) = words.split_once(' ').expect(rt, "a function");
    let text = text_of(rt, alloc, name);
    let inputs = inputs_of(rt, alloc, words);
    let world = answers_of(rt, alloc, world);
    let source = Source {
        name: "text",
        text: text.as_bytes(),
    };
    let options = RunOptions {
        inputs: &inputs,
        world: &world,
        steps: 300,
        trace: false,
        json: false,
    };
    let outcome = run::<MlirNotation>(alloc, &source, &options).expect(rt, "memory");
    let got = written(rt, alloc, &outcome);
    assert_eq!(rt; got.as_str(), wanted, "{name} {words}");
}

#[test]
fn functions_run(rt: HostRuntime) {
    for case in RUNS.lines() {
        check_run(&rt, rt.alloc(), case);
    }
}

/// Words, and what they say: a datum as it is written, or `none`.
static WORDS: &str = "\
5:i32 => 5 : i32
-1:i8 => -1 : i8
255:i8 => -1 : i8
256:i8 => none
-129:i8 => none
-128:i8 => -128 : i8
true => true
1:i1 => true
-1:i1 => true
0:i1 => false
2:i1 => none
7:index => 7 : index
5 => 5 : i64
18446744073709551615:i64 => -1 : i64
18446744073709551616:i64 => none
-9223372036854775809 => none
5:i65 => none
5:i0 => none
5:f32 => none
x:i32 => none
() => ()";

fn check_word(rt: &impl Abort, alloc: Global, case: &str) {
    let (word, wanted) = case.split_once(" => ").expect(rt, "a case");
    let sheet = MlirNotation::empty_sheet(alloc);
    let mut found = String::new(alloc);
    match MlirNotation::input_of_word(alloc, word).expect(rt, "memory") {
        Some(datum) => {
            MlirNotation::write_datum(alloc, &mut found, &sheet, &datum).expect(rt, "memory");
        }
        None => found.push_str("none").expect(rt, "memory"),
    }
    assert_eq!(rt; found.as_str(), wanted, "{word}");
}

#[test]
fn words_say_data(rt: HostRuntime) {
    for case in WORDS.lines() {
        check_word(&rt, rt.alloc(), case);
    }
}

// The run before passes and after them.
fn check_compared(rt: &impl Abort, alloc: Global, name: &str, words: &str, wanted: &str) {
    let text = text_of(rt, alloc, name);
    let inputs = inputs_of(rt, alloc, words);
    let source = Source {
        name: "text",
        text: text.as_bytes(),
    };
    let run = RunOptions {
        inputs: &inputs,
        world: &[],
        steps: 300,
        trace: false,
        json: false,
    };
    let options = CompareOptions {
        run,
        pipeline: "repeat<4>(sccp,cse,canonicalize,combine,simplify-cfg,dce)",
    };
    let outcome = compare::<MlirNotation>(alloc, &source, &options).expect(rt, "memory");
    let got = written(rt, alloc, &outcome);
    assert_eq!(rt; got.as_str(), wanted, "{name} {words}");
}

#[test]
fn functions_are_compared(rt: HostRuntime) {
    let same = "0 ended with -1692 : i32|the same before and after|";
    check_compared(&rt, rt.alloc(), "walk", "23:i32", same);
    let poison = "0 ended with ()|the same before and after|";
    check_compared(&rt, rt.alloc(), "quotient", "1:i32 0:i32", poison);
}

#[test]
fn functions_of_a_module_are_found(rt: HostRuntime) {
    let alloc = rt.alloc();
    let text = "~builtin.module~() ({ ~llvm.func~() <{sym_name = ~far~}> ({ }) : () -> () \
        ~func.func~() <{sym_name = ~near~}> ({ ~func.return~() : () -> () }) : () -> () }) : () -> ()";
    let text = with_quotes(alloc, text).expect(&rt, "memory");
    let found = functions_of(alloc, text.as_bytes()).expect(&rt, "memory");
    let found = found.expect(&rt, "a module");
    assert!(rt; found.len() == 1);
    assert!(rt; found[0].index == 1);
    assert!(rt; found[0].name.as_str() == "near");
    let none = functions_of(alloc, b"~llvm.func~").expect(&rt, "memory");
    assert!(rt; none.is_none());
}
