//! What is read of the properties that operations own, beside entries of the same names that they don't own: the
//! operation whose result a function returns after `sccp`, `canonicalize`, `simplify-cfg` and `dce`. Answers are those of
//! MLIR 22 and LLVM 22. `|` stands for the end of a line.
use crate::lines::{in_one_line, with_lines};
use pliron_dialect_mlir::{AnyMeaning, Mlir};
use pliron_driver_instrument::{PlanError, Timeless};
use pliron_driver_mlir::{GenericForm, ModuleOptions, ModuleSource, read_plan, run_passes};
use std::alloc::Global;
use std::process::Abort;

type Form = GenericForm<Mlir<AnyMeaning>>;

static NOTHING: ModuleOptions = ModuleOptions {
    counts: false,
    verifies: false,
    times: false,
    checks: false,
};

static BEFORE: &str =
    "\"builtin.module\"() ({|  \"llvm.func\"() <{sym_name = \"f\"}> ({|  ^e(%x: i32):|";

static BEHIND: &str = "|  }) : () -> ()|}) : () -> ()|";

// The module that is left of one whose function has these operations.
fn left_of(rt: &impl Abort, alloc: Global, operations: &str) -> String {
    let text = format!(in alloc; "{BEFORE}{operations}{BEHIND}").expect(rt, "memory");
    let lines = with_lines(alloc, text.as_str()).expect(rt, "memory");
    let source = ModuleSource {
        name: "t",
        text: lines.as_bytes(),
    };
    match read_plan(alloc, "sccp,canonicalize,simplify-cfg,dce") {
        Ok(plan) => {
            let outcome = run_passes::<Form, Timeless>(alloc, &source, &NOTHING, &plan, Timeless);
            let outcome = outcome.expect(rt, "memory");
            in_one_line(alloc, &outcome.output).expect(rt, "memory")
        }
        Err(PlanError::Word(_)) => panic!(rt; "no such pass"),
        Err(PlanError::Memory) => panic!(rt; "memory"),
    }
}

// The operation before the first return, without the name of its result.
fn before_return(text: &str) -> Option<&str> {
    let (before, _) = text.split_once("\"llvm.return\"")?;
    let (lines, _) = before.rsplit_once('|')?;
    let (_, line) = lines.rsplit_once('|')?;
    match line.split_once(" = ") {
        Some((_, operation)) => Some(operation),
        None => Some(line),
    }
}

/// Names, operations, and what is returned.
static ROWS: &str = "\
a zero of i64 -- %0 = \"llvm.mlir.zero\"() {value = 5 : i64} : () -> i64|%1 = \"llvm.mlir.constant\"() <{value = 1 : \
    i64}> : () -> i64|%2 = \"llvm.add\"(%0, %1) : (i64, i64) -> i64|\"llvm.return\"(%2) : (i64) -> () => \
    \"llvm.mlir.constant\"() <{value = 1 : i64}> : () -> i64
a zero of i1 -- %0 = \"llvm.mlir.zero\"() {value = true} : () -> i1|%1 = \"llvm.mlir.constant\"() <{value = 7 : i32}> : \
    () -> i32|%2 = \"llvm.mlir.constant\"() <{value = 8 : i32}> : () -> i32|%3 = \"llvm.select\"(%0, %1, %2) : (i1, i32, \
    i32) -> i32|\"llvm.return\"(%3) : (i32) -> () => \"llvm.mlir.constant\"() <{value = 8 : i32}> : () -> i32
a zero of i8 -- %0 = \"llvm.mlir.zero\"() {value = 5 : i8} : () -> i8|%1 = \"llvm.mlir.constant\"() <{value = 1 : i8}> : \
    () -> i8|%2 = \"llvm.sub\"(%0, %1) : (i8, i8) -> i8|\"llvm.return\"(%2) : (i8) -> () => \
    \"llvm.mlir.constant\"() <{value = -1 : i8}> : () -> i8
a zero of pointers -- %0 = \"llvm.mlir.zero\"() {value = 5 : i64} : () -> !llvm.ptr|\"llvm.return\"(%0) : (!llvm.ptr) -> \
    () => \"llvm.mlir.zero\"() {value = 5 : i64} : () -> !llvm.ptr
a value in both lists -- %0 = \"llvm.mlir.constant\"() <{value = 5 : i32}> {value = 6 : i32} : () -> i32|%1 = \
    \"llvm.add\"(%0, %0) : (i32, i32) -> i32|\"llvm.return\"(%1) : (i32) -> () => \"llvm.mlir.constant\"() <{value = 10 : \
    i32}> : () -> i32
a value in the dictionary -- %0 = \"arith.constant\"() {value = 5 : i32} : () -> i32|%1 = \"arith.addi\"(%0, %0) : \
    (i32, i32) -> i32|\"llvm.return\"(%1) : (i32) -> () => \"llvm.mlir.constant\"() <{value = 10 : i32}> : () -> i32
a value of another width -- %0 = \"llvm.mlir.constant\"() <{value = 5 : i64}> : () -> i32|\"llvm.return\"(%0) : (i32) -> \
    () => \"llvm.mlir.constant\"() <{value = 5 : i64}> : () -> i32
overflow flags that llvm.add doesn't own -- %0 = \"llvm.mlir.constant\"() <{value = 127 : i8}> : () -> i8|%1 = \
    \"llvm.mlir.constant\"() <{value = 1 : i8}> : () -> i8|%2 = \"llvm.add\"(%0, %1) {overflowFlags = \
    #llvm.overflow<nsw>} : (i8, i8) -> i8|\"llvm.return\"(%2) : (i8) -> () => \"llvm.mlir.constant\"() <{value = -128 : \
    i8}> : () -> i8
overflow flags that llvm.add owns -- %0 = \"llvm.mlir.constant\"() <{value = 127 : i8}> : () -> i8|%2 = \
    \"llvm.add\"(%0, %0) <{overflowFlags = #llvm.overflow<nuw>}> {overflowFlags = #llvm.overflow<nsw>} : (i8, i8) -> \
    i8|\"llvm.return\"(%2) : (i8) -> () => \"llvm.mlir.constant\"() <{value = -2 : i8}> : () -> i8
overflow flags that arith.addi owns -- %0 = \"arith.constant\"() <{value = 127 : i8}> : () -> i8|%2 = \
    \"arith.addi\"(%0, %0) {overflowFlags = #arith.overflow<nuw>} : (i8, i8) -> i8|\"llvm.return\"(%2) : (i8) -> () => \
    \"llvm.mlir.constant\"() <{value = -2 : i8}> : () -> i8
a flag of shifts to the left -- %0 = \"llvm.mlir.constant\"() <{value = 3 : i8}> : () -> i8|%2 = \"llvm.shl\"(%0, %0) \
    {isExact, isDisjoint, nonNeg, overflowFlags = #llvm.overflow<nsw, nuw>} : (i8, i8) -> i8|\"llvm.return\"(%2) : \
    (i8) -> () => \"llvm.mlir.constant\"() <{value = 24 : i8}> : () -> i8
a quotient that is exact by another name -- %0 = \"llvm.mlir.constant\"() <{value = 7 : i8}> : () -> i8|%1 = \
    \"llvm.mlir.constant\"() <{value = 2 : i8}> : () -> i8|%2 = \"llvm.urem\"(%0, %1) {isExact} : (i8, i8) -> \
    i8|\"llvm.return\"(%2) : (i8) -> () => \"llvm.mlir.constant\"() <{value = 1 : i8}> : () -> i8
an or of arith with equal bits -- %0 = \"arith.constant\"() <{value = 3 : i8}> : () -> i8|%1 = \"arith.constant\"() \
    <{value = 6 : i8}> : () -> i8|%2 = \"arith.ori\"(%0, %1) {isDisjoint} : (i8, i8) -> i8|\"llvm.return\"(%2) : (i8) -> \
    () => \"llvm.mlir.constant\"() <{value = 7 : i8}> : () -> i8
a negative number that arith extends -- %0 = \"arith.constant\"() <{value = -1 : i8}> : () -> i8|%1 = \
    \"arith.extui\"(%0) {nonNeg} : (i8) -> i16|\"llvm.return\"(%1) : (i16) -> () => \"llvm.mlir.constant\"() <{value = \
    255 : i16}> : () -> i16
a predicate in both lists -- %0 = \"llvm.mlir.constant\"() <{value = 1 : i8}> : () -> i8|%1 = \"llvm.mlir.constant\"() \
    <{value = 2 : i8}> : () -> i8|%2 = \"llvm.icmp\"(%0, %1) <{predicate = 2 : i64}> {predicate = 4 : i64} : (i8, i8) -> \
    i1|\"llvm.return\"(%2) : (i1) -> () => \"llvm.mlir.constant\"() <{value = true}> : () -> i1
a predicate in the dictionary -- %0 = \"llvm.mlir.constant\"() <{value = 1 : i8}> : () -> i8|%1 = \
    \"llvm.mlir.constant\"() <{value = 2 : i8}> : () -> i8|%2 = \"llvm.icmp\"(%0, %1) {predicate = 4 : i64} : (i8, i8) -> \
    i1|\"llvm.return\"(%2) : (i1) -> () => \"llvm.mlir.constant\"() <{value = false}> : () -> i1
counts in both lists -- %c = \"llvm.mlir.constant\"() <{value = true}> : () -> i1|%0 = \"llvm.mlir.constant\"() <{value \
    = 3 : i32}> : () -> i32|\"llvm.cond_br\"(%c, %0, %x)[^y, ^z] <{operandSegmentSizes = array<i32: 1, 1, 1>}> \
    {operandSegmentSizes = array<i32: 1, 2, 0>} : (i1, i32, i32) -> ()|^y(%1: i32):|\"llvm.return\"(%1) : (i32) -> \
    ()|^z(%2: i32):|\"llvm.return\"(%2) : (i32) -> () => \"llvm.mlir.constant\"() <{value = 3 : i32}> : () -> i32
cases in both lists -- %c = \"llvm.mlir.constant\"() <{value = 7 : i32}> : () -> i32|\"llvm.switch\"(%c)[^y, ^z] \
    <{case_operand_segments = array<i32: 0>, case_values = dense<7> : vector<1xi32>, operandSegmentSizes = array<i32: 1, \
    0, 0>}> {case_values = dense<8> : vector<1xi32>, case_operand_segments = array<i32: 1>} : (i32) -> \
    ()|^y:|%1 = \"llvm.mlir.constant\"() <{value = 1 : i32}> : () -> i32|\"llvm.return\"(%1) : (i32) -> ()|^z:|%2 = \
    \"llvm.mlir.constant\"() <{value = 2 : i32}> : () -> i32|\"llvm.return\"(%2) : (i32) -> () => \
    \"llvm.mlir.constant\"() <{value = 2 : i32}> : () -> i32";

#[test]
fn reads_what_operations_own(rt: HostRuntime) {
    let alloc = rt.alloc();
    for case in ROWS.lines() {
        let (name, row) = case.split_once(" -- ").expect(&rt, "a name");
        let (operations, wanted) = row.split_once(" => ").expect(&rt, "a case");
        let left = left_of(&rt, alloc, operations);
        let returned = before_return(left.as_str()).expect(&rt, "a return");
        assert!(&rt; returned == wanted, "{name}: {returned}");
    }
}

/// Names and operations of which a flag is broken, or none that passes read is said: what is returned is theirs.
static KEPT: &str = "\
an overflow of llvm.add -- %0 = \"llvm.mlir.constant\"() <{value = 127 : i8}> : () -> i8|%1 = \"llvm.add\"(%0, %0) \
    <{overflowFlags = #llvm.overflow<nsw>}> {overflowFlags = #llvm.overflow<none>} : (i8, i8) -> i8|\"llvm.return\"(%1) : \
    (i8) -> () => \"llvm.add\"
an overflow by a number -- %0 = \"llvm.mlir.constant\"() <{value = 127 : i8}> : () -> i8|%1 = \"llvm.add\"(%0, %0) \
    <{overflowFlags = 1 : i32}> : (i8, i8) -> i8|\"llvm.return\"(%1) : (i8) -> () => \"llvm.add\"
an overflow by an alias -- %0 = \"llvm.mlir.constant\"() <{value = 127 : i8}> : () -> i8|%1 = \"llvm.add\"(%0, %0) \
    <{overflowFlags = #flags}> : (i8, i8) -> i8|\"llvm.return\"(%1) : (i8) -> () => \"llvm.add\"
an overflow of arith.addi -- %0 = \"arith.constant\"() <{value = 127 : i8}> : () -> i8|%1 = \"arith.addi\"(%0, %0) \
    {overflowFlags = #arith.overflow<nsw>} : (i8, i8) -> i8|\"llvm.return\"(%1) : (i8) -> () => \"arith.addi\"
an inexact shift -- %0 = \"llvm.mlir.constant\"() <{value = 1 : i8}> : () -> i8|%1 = \"llvm.lshr\"(%0, %0) {isExact} : \
    (i8, i8) -> i8|\"llvm.return\"(%1) : (i8) -> () => \"llvm.lshr\"
an inexact quotient of arith -- %0 = \"arith.constant\"() <{value = 3 : i8}> : () -> i8|%1 = \"arith.constant\"() \
    <{value = 2 : i8}> : () -> i8|%2 = \"arith.divui\"(%0, %1) {isExact} : (i8, i8) -> i8|\"llvm.return\"(%2) : (i8) -> \
    () => \"arith.divui\"
an or with equal bits -- %0 = \"llvm.mlir.constant\"() <{value = 1 : i8}> : () -> i8|%1 = \"llvm.or\"(%0, %0) \
    {isDisjoint} : (i8, i8) -> i8|\"llvm.return\"(%1) : (i8) -> () => \"llvm.or\"
a negative number that llvm extends -- %0 = \"llvm.mlir.constant\"() <{value = -1 : i8}> : () -> i8|%1 = \
    \"llvm.zext\"(%0) {nonNeg} : (i8) -> i16|\"llvm.return\"(%1) : (i16) -> () => \"llvm.zext\"
a predicate that is negative -- %0 = \"llvm.mlir.constant\"() <{value = 1 : i8}> : () -> i8|%1 = \"llvm.icmp\"(%0, %0) \
    <{predicate = -1 : i64}> : (i8, i8) -> i1|\"llvm.return\"(%1) : (i1) -> () => \"llvm.icmp\"
counts of an older name -- %c = \"llvm.mlir.constant\"() <{value = true}> : () -> i1|\"llvm.cond_br\"(%c, %x, %x)[^y, ^y] \
    <{operand_segment_sizes = array<i32: 1, 1, 1>}> {operandSegmentSizes = array<i32: 1, 2, 0>} : (i1, i32, i32) -> \
    ()|^y(%1: i32):|\"llvm.return\"(%1) : (i32) -> () => operand_segment_sizes";

#[test]
fn keeps_what_is_not_read(rt: HostRuntime) {
    let alloc = rt.alloc();
    for case in KEPT.lines() {
        let (name, row) = case.split_once(" -- ").expect(&rt, "a name");
        let (operations, wanted) = row.split_once(" => ").expect(&rt, "a case");
        let left = left_of(&rt, alloc, operations);
        assert!(&rt; left.as_str().contains(wanted), "{name}: {left}");
    }
}
