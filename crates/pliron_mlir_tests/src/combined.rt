//! Modules, and what the rules of MLIR leave of them. `|` stands for the end of a line. Answers were worked out by hand:
//! what a rule makes is just before the operation, which stays without uses.
use crate::lines::{in_one_line, with_lines};
use crate::rows::{pairs, rules};
use pliron_core::{Context, Operation, Ptr};
use pliron_dialect_mlir::{AnyMeaning, Mlir};
use pliron_laws::is_well_linked;
use pliron_mlir_rules::MlirRules;
use pliron_opt_combine::combine;
use pliron_text_mlir_printer::print_module;
use pliron_text_mlir_reader::read_module;
use std::alloc::Global;
use std::process::Abort;

static BEFORE: &str = "\"llvm.func\"() <{sym_name = \"f\"}> ({|^bb0";

static BEHIND: &str = "|}) : () -> ()|";

// How many rewrites the rules make.
fn rewrites(rt: &impl Abort, alloc: Global, root: Ptr<Operation>, ctx: &mut Context) -> usize {
    assert!(rt; root.is_live(ctx));
    assert!(rt; is_well_linked::<Mlir<AnyMeaning>>(root, ctx));
    let combined = combine::<Mlir<AnyMeaning>, MlirRules>(alloc, root, 100, ctx);
    combined.expect(rt, "memory").count
}

fn expect_combined(rt: &impl Abort, alloc: Global, case: &str, ctx: &mut Context) {
    let (name, row) = case.split_once(" -- ").expect(rt, "a name");
    let (text, wanted) = row.split_once(" => ").expect(rt, "a case");
    let text = format!(in alloc; "{BEFORE}{text}{BEHIND}").expect(rt, "memory");
    let lines = with_lines(alloc, text.as_str()).expect(rt, "memory");
    let module = read_module::<Mlir<AnyMeaning>>(alloc, lines.as_bytes(), ctx);
    let module = module.expect(rt, "a module");
    let count = rewrites(rt, alloc, module.root, ctx);
    let printed = print_module(alloc, module.root, &module.sheet, ctx).expect(rt, "memory");
    let line = in_one_line(alloc, &printed).expect(rt, "memory");
    let wanted = format!(in alloc; "{BEFORE}{wanted}{BEHIND}").expect(rt, "memory");
    assert!(rt; count <= 2, "{name}: {count} rewrites");
    assert!(rt; line == wanted, "{name}: {line}");
}

/// Names, bodies of functions, and what is left of them.
static ROWS: &str = "\
unsigned less -- (%0: i8, %1: i8):|  %2 = \"llvm.zext\"(%0) : (i8) -> i32|  %3 = \"llvm.zext\"(%1) : (i8) -> i32|  %4 \
    = \"llvm.icmp\"(%2, %3) <{predicate = 6 : i64}> : (i32, i32) -> i1|  \"llvm.return\"(%4) : (i1) -> () => (%0: i8, \
    %1: i8):|  %2 = \"llvm.zext\"(%0) : (i8) -> i32|  %3 = \"llvm.zext\"(%1) : (i8) -> i32|  %5 = \"llvm.icmp\"(%0, \
    %1) <{predicate = 6 : i64}> : (i8, i8) -> i1|  %4 = \"llvm.icmp\"(%2, %3) <{predicate = 6 : i64}> : (i32, i32) -> \
    i1|  \"llvm.return\"(%5) : (i1) -> ()
signed less becomes unsigned -- (%0: i8, %1: i8):|  %2 = \"llvm.zext\"(%0) : (i8) -> i32|  %3 = \"llvm.zext\"(%1) : \
    (i8) -> i32|  %4 = \"llvm.icmp\"(%2, %3) <{predicate = 2 : i64}> : (i32, i32) -> i1|  \"llvm.return\"(%4) : (i1) \
    -> () => (%0: i8, %1: i8):|  %2 = \"llvm.zext\"(%0) : (i8) -> i32|  %3 = \"llvm.zext\"(%1) : (i8) -> i32|  %5 = \
    \"llvm.icmp\"(%0, %1) <{predicate = 6 : i64}> : (i8, i8) -> i1|  %4 = \"llvm.icmp\"(%2, %3) <{predicate = 2 : \
    i64}> : (i32, i32) -> i1|  \"llvm.return\"(%5) : (i1) -> ()
other widths -- (%0: i8, %1: i16):|  %2 = \"llvm.zext\"(%0) : (i8) -> i32|  %3 = \"llvm.zext\"(%1) : (i16) -> i32|  %4 \
    = \"llvm.icmp\"(%2, %3) <{predicate = 0 : i64}> : (i32, i32) -> i1|  \"llvm.return\"(%4) : (i1) -> () => (%0: i8, \
    %1: i16):|  %2 = \"llvm.zext\"(%0) : (i8) -> i32|  %3 = \"llvm.zext\"(%1) : (i16) -> i32|  %4 = \"llvm.icmp\"(%2, \
    %3) <{predicate = 0 : i64}> : (i32, i32) -> i1|  \"llvm.return\"(%4) : (i1) -> ()
a constant that fits -- (%0: i8):|  %1 = \"llvm.mlir.constant\"() <{value = 200 : i32}> : () -> i32|  %2 = \
    \"llvm.zext\"(%0) : (i8) -> i32|  %3 = \"llvm.icmp\"(%2, %1) <{predicate = 0 : i64}> : (i32, i32) -> i1|  \
    \"llvm.return\"(%3) : (i1) -> () => (%0: i8):|  %1 = \"llvm.mlir.constant\"() <{value = 200 : i32}> : () -> i32|  \
    %2 = \"llvm.zext\"(%0) : (i8) -> i32|  %4 = \"llvm.mlir.constant\"() <{value = -56 : i8}> : () -> i8|  %5 = \
    \"llvm.icmp\"(%0, %4) <{predicate = 0 : i64}> : (i8, i8) -> i1|  %3 = \"llvm.icmp\"(%2, %1) <{predicate = 0 : \
    i64}> : (i32, i32) -> i1|  \"llvm.return\"(%5) : (i1) -> ()
a constant that doesn't -- (%0: i8):|  %1 = \"llvm.mlir.constant\"() <{value = 256 : i32}> : () -> i32|  %2 = \
    \"llvm.zext\"(%0) : (i8) -> i32|  %3 = \"llvm.icmp\"(%2, %1) <{predicate = 0 : i64}> : (i32, i32) -> i1|  \
    \"llvm.return\"(%3) : (i1) -> () => (%0: i8):|  %1 = \"llvm.mlir.constant\"() <{value = 256 : i32}> : () -> i32|  \
    %2 = \"llvm.zext\"(%0) : (i8) -> i32|  %3 = \"llvm.icmp\"(%2, %1) <{predicate = 0 : i64}> : (i32, i32) -> i1|  \
    \"llvm.return\"(%3) : (i1) -> ()
an extension of an extension -- (%0: i8):|  %1 = \"llvm.zext\"(%0) : (i8) -> i16|  %2 = \"llvm.zext\"(%1) : (i16) -> \
    i64|  \"llvm.return\"(%2) : (i64) -> () => (%0: i8):|  %1 = \"llvm.zext\"(%0) : (i8) -> i16|  %3 = \
    \"llvm.zext\"(%0) : (i8) -> i64|  %2 = \"llvm.zext\"(%1) : (i16) -> i64|  \"llvm.return\"(%3) : (i64) -> ()
a truncation back -- (%0: i8):|  %1 = \"llvm.zext\"(%0) : (i8) -> i32|  %2 = \"llvm.trunc\"(%1) : (i32) -> i8|  \
    \"llvm.return\"(%2) : (i8) -> () => (%0: i8):|  %1 = \"llvm.zext\"(%0) : (i8) -> i32|  %2 = \"llvm.trunc\"(%1) : \
    (i32) -> i8|  \"llvm.return\"(%0) : (i8) -> ()
a sign extension of a zero extension -- (%0: i8):|  %1 = \"llvm.zext\"(%0) : (i8) -> i16|  %2 = \"llvm.sext\"(%1) : \
    (i16) -> i64|  \"llvm.return\"(%2) : (i64) -> () => (%0: i8):|  %1 = \"llvm.zext\"(%0) : (i8) -> i16|  %3 = \
    \"llvm.zext\"(%0) : (i8) -> i64|  %2 = \"llvm.sext\"(%1) : (i16) -> i64|  \"llvm.return\"(%3) : (i64) -> ()
a sign extension of one -- (%0: i8):|  %1 = \"llvm.sext\"(%0) : (i8) -> i16|  %2 = \"llvm.sext\"(%1) : (i16) -> i64|  \
    \"llvm.return\"(%2) : (i64) -> () => (%0: i8):|  %1 = \"llvm.sext\"(%0) : (i8) -> i16|  %3 = \"llvm.sext\"(%0) : \
    (i8) -> i64|  %2 = \"llvm.sext\"(%1) : (i16) -> i64|  \"llvm.return\"(%3) : (i64) -> ()
a truncation of a zero extension, to more bits -- (%0: i8):|  %1 = \"llvm.zext\"(%0) : (i8) -> i64|  %2 = \
    \"llvm.trunc\"(%1) : (i64) -> i32|  \"llvm.return\"(%2) : (i32) -> () => (%0: i8):|  %1 = \"llvm.zext\"(%0) : (i8) \
    -> i64|  %3 = \"llvm.zext\"(%0) : (i8) -> i32|  %2 = \"llvm.trunc\"(%1) : (i64) -> i32|  \"llvm.return\"(%3) : \
    (i32) -> ()
a truncation of a sign extension, to fewer bits -- (%0: i32):|  %1 = \"llvm.sext\"(%0) : (i32) -> i64|  %2 = \
    \"llvm.trunc\"(%1) : (i64) -> i8|  \"llvm.return\"(%2) : (i8) -> () => (%0: i32):|  %1 = \"llvm.sext\"(%0) : (i32) \
    -> i64|  %3 = \"llvm.trunc\"(%0) : (i32) -> i8|  %2 = \"llvm.trunc\"(%1) : (i64) -> i8|  \"llvm.return\"(%3) : \
    (i8) -> ()
a truncation of a sign extension, back -- (%0: i8):|  %1 = \"llvm.sext\"(%0) : (i8) -> i64|  %2 = \"llvm.trunc\"(%1) : \
    (i64) -> i8|  \"llvm.return\"(%2) : (i8) -> () => (%0: i8):|  %1 = \"llvm.sext\"(%0) : (i8) -> i64|  %2 = \
    \"llvm.trunc\"(%1) : (i64) -> i8|  \"llvm.return\"(%0) : (i8) -> ()
a truncation of a truncation -- (%0: i64):|  %1 = \"llvm.trunc\"(%0) : (i64) -> i32|  %2 = \"llvm.trunc\"(%1) : (i32) \
    -> i8|  \"llvm.return\"(%2) : (i8) -> () => (%0: i64):|  %1 = \"llvm.trunc\"(%0) : (i64) -> i32|  %3 = \
    \"llvm.trunc\"(%0) : (i64) -> i8|  %2 = \"llvm.trunc\"(%1) : (i32) -> i8|  \"llvm.return\"(%3) : (i8) -> ()
a zero extension of a sign extension -- (%0: i8):|  %1 = \"llvm.sext\"(%0) : (i8) -> i16|  %2 = \"llvm.zext\"(%1) : \
    (i16) -> i64|  \"llvm.return\"(%2) : (i64) -> () => (%0: i8):|  %1 = \"llvm.sext\"(%0) : (i8) -> i16|  %2 = \
    \"llvm.zext\"(%1) : (i16) -> i64|  \"llvm.return\"(%2) : (i64) -> ()
a zero extension of a truncation -- (%0: i64):|  %1 = \"llvm.trunc\"(%0) : (i64) -> i16|  %2 = \"llvm.zext\"(%1) : \
    (i16) -> i64|  \"llvm.return\"(%2) : (i64) -> () => (%0: i64):|  %1 = \"llvm.trunc\"(%0) : (i64) -> i16|  %3 = \
    \"llvm.mlir.constant\"() <{value = 65535 : i64}> : () -> i64|  %4 = \"llvm.and\"(%0, %3) : (i64, i64) -> i64|  %2 \
    = \"llvm.zext\"(%1) : (i16) -> i64|  \"llvm.return\"(%4) : (i64) -> ()
a zero extension of a truncation, to another width -- (%0: i64):|  %1 = \"llvm.trunc\"(%0) : (i64) -> i16|  %2 = \
    \"llvm.zext\"(%1) : (i16) -> i32|  \"llvm.return\"(%2) : (i32) -> () => (%0: i64):|  %1 = \"llvm.trunc\"(%0) : \
    (i64) -> i16|  %2 = \"llvm.zext\"(%1) : (i16) -> i32|  \"llvm.return\"(%2) : (i32) -> ()
not less -- (%0: i32, %1: i32):|  %2 = \"llvm.mlir.constant\"() <{value = true}> : () -> i1|  %3 = \"llvm.icmp\"(%0, \
    %1) <{predicate = 2 : i64}> : (i32, i32) -> i1|  %4 = \"llvm.xor\"(%3, %2) : (i1, i1) -> i1|  \"llvm.return\"(%4) \
    : (i1) -> () => (%0: i32, %1: i32):|  %2 = \"llvm.mlir.constant\"() <{value = true}> : () -> i1|  %3 = \
    \"llvm.icmp\"(%0, %1) <{predicate = 2 : i64}> : (i32, i32) -> i1|  %5 = \"llvm.icmp\"(%0, %1) <{predicate = 5 : \
    i64}> : (i32, i32) -> i1|  %4 = \"llvm.xor\"(%3, %2) : (i1, i1) -> i1|  \"llvm.return\"(%5) : (i1) -> ()
not equal -- (%0: i32, %1: i32):|  %2 = \"llvm.mlir.constant\"() <{value = true}> : () -> i1|  %3 = \"llvm.icmp\"(%0, \
    %1) <{predicate = 0 : i64}> : (i32, i32) -> i1|  %4 = \"llvm.xor\"(%3, %2) : (i1, i1) -> i1|  \"llvm.return\"(%4) \
    : (i1) -> () => (%0: i32, %1: i32):|  %2 = \"llvm.mlir.constant\"() <{value = true}> : () -> i1|  %3 = \
    \"llvm.icmp\"(%0, %1) <{predicate = 0 : i64}> : (i32, i32) -> i1|  %5 = \"llvm.icmp\"(%0, %1) <{predicate = 1 : \
    i64}> : (i32, i32) -> i1|  %4 = \"llvm.xor\"(%3, %2) : (i1, i1) -> i1|  \"llvm.return\"(%5) : (i1) -> ()
not at most, unsigned -- (%0: i32, %1: i32):|  %2 = \"llvm.mlir.constant\"() <{value = true}> : () -> i1|  %3 = \
    \"llvm.icmp\"(%0, %1) <{predicate = 7 : i64}> : (i32, i32) -> i1|  %4 = \"llvm.xor\"(%3, %2) : (i1, i1) -> i1|  \
    \"llvm.return\"(%4) : (i1) -> () => (%0: i32, %1: i32):|  %2 = \"llvm.mlir.constant\"() <{value = true}> : () -> \
    i1|  %3 = \"llvm.icmp\"(%0, %1) <{predicate = 7 : i64}> : (i32, i32) -> i1|  %5 = \"llvm.icmp\"(%0, %1) \
    <{predicate = 8 : i64}> : (i32, i32) -> i1|  %4 = \"llvm.xor\"(%3, %2) : (i1, i1) -> i1|  \"llvm.return\"(%5) : \
    (i1) -> ()
a difference -- (%0: i32):|  %1 = \"llvm.mlir.constant\"() <{value = 3 : i32}> : () -> i32|  %2 = \"llvm.sub\"(%0, %1) \
    <{overflowFlags = 0 : i32}> : (i32, i32) -> i32|  \"llvm.return\"(%2) : (i32) -> () => (%0: i32):|  %1 = \
    \"llvm.mlir.constant\"() <{value = 3 : i32}> : () -> i32|  %3 = \"llvm.mlir.constant\"() <{value = -3 : i32}> : () \
    -> i32|  %4 = \"llvm.add\"(%0, %3) : (i32, i32) -> i32|  %2 = \"llvm.sub\"(%0, %1) <{overflowFlags = 0 : i32}> : \
    (i32, i32) -> i32|  \"llvm.return\"(%4) : (i32) -> ()
a difference that promises signs -- (%0: i32):|  %1 = \"llvm.mlir.constant\"() <{value = 3 : i32}> : () -> i32|  %2 = \
    \"llvm.sub\"(%0, %1) <{overflowFlags = 1 : i32}> : (i32, i32) -> i32|  \"llvm.return\"(%2) : (i32) -> () => (%0: \
    i32):|  %1 = \"llvm.mlir.constant\"() <{value = 3 : i32}> : () -> i32|  %3 = \"llvm.mlir.constant\"() <{value = -3 \
    : i32}> : () -> i32|  %4 = \"llvm.add\"(%0, %3) <{overflowFlags = #llvm.overflow<nsw>}> : (i32, i32) -> i32|  %2 = \
    \"llvm.sub\"(%0, %1) <{overflowFlags = 1 : i32}> : (i32, i32) -> i32|  \"llvm.return\"(%4) : (i32) -> ()
a difference that promises no borrow -- (%0: i32):|  %1 = \"llvm.mlir.constant\"() <{value = 3 : i32}> : () -> i32|  \
    %2 = \"llvm.sub\"(%0, %1) <{overflowFlags = 2 : i32}> : (i32, i32) -> i32|  \"llvm.return\"(%2) : (i32) -> () => \
    (%0: i32):|  %1 = \"llvm.mlir.constant\"() <{value = 3 : i32}> : () -> i32|  %2 = \"llvm.sub\"(%0, %1) \
    <{overflowFlags = 2 : i32}> : (i32, i32) -> i32|  \"llvm.return\"(%2) : (i32) -> ()
the least number is no opposite -- (%0: i32):|  %1 = \"llvm.mlir.constant\"() <{value = -2147483648 : i32}> : () -> \
    i32|  %2 = \"llvm.sub\"(%0, %1) <{overflowFlags = 1 : i32}> : (i32, i32) -> i32|  \"llvm.return\"(%2) : (i32) -> \
    () => (%0: i32):|  %1 = \"llvm.mlir.constant\"() <{value = -2147483648 : i32}> : () -> i32|  %2 = \"llvm.sub\"(%0, \
    %1) <{overflowFlags = 1 : i32}> : (i32, i32) -> i32|  \"llvm.return\"(%2) : (i32) -> ()
the least number is its own opposite -- (%0: i32):|  %1 = \"llvm.mlir.constant\"() <{value = -2147483648 : i32}> : () \
    -> i32|  %2 = \"llvm.sub\"(%0, %1) <{overflowFlags = 0 : i32}> : (i32, i32) -> i32|  \"llvm.return\"(%2) : (i32) \
    -> () => (%0: i32):|  %1 = \"llvm.mlir.constant\"() <{value = -2147483648 : i32}> : () -> i32|  %3 = \
    \"llvm.mlir.constant\"() <{value = -2147483648 : i32}> : () -> i32|  %4 = \"llvm.add\"(%0, %3) : (i32, i32) -> \
    i32|  %2 = \"llvm.sub\"(%0, %1) <{overflowFlags = 0 : i32}> : (i32, i32) -> i32|  \"llvm.return\"(%4) : (i32) -> \
    ()
two constants -- (%0: i32):|  %1 = \"llvm.mlir.constant\"() <{value = 3 : i32}> : () -> i32|  %2 = \"llvm.add\"(%0, \
    %1) <{overflowFlags = 0 : i32}> : (i32, i32) -> i32|  %3 = \"llvm.mlir.constant\"() <{value = 4 : i32}> : () -> \
    i32|  %4 = \"llvm.add\"(%2, %3) <{overflowFlags = 0 : i32}> : (i32, i32) -> i32|  \"llvm.return\"(%4) : (i32) -> \
    () => (%0: i32):|  %1 = \"llvm.mlir.constant\"() <{value = 3 : i32}> : () -> i32|  %2 = \"llvm.add\"(%0, %1) \
    <{overflowFlags = 0 : i32}> : (i32, i32) -> i32|  %3 = \"llvm.mlir.constant\"() <{value = 4 : i32}> : () -> i32|  \
    %5 = \"llvm.mlir.constant\"() <{value = 7 : i32}> : () -> i32|  %6 = \"llvm.add\"(%0, %5) : (i32, i32) -> i32|  %4 \
    = \"llvm.add\"(%2, %3) <{overflowFlags = 0 : i32}> : (i32, i32) -> i32|  \"llvm.return\"(%6) : (i32) -> ()
two constants that wrap -- (%0: i32):|  %1 = \"llvm.mlir.constant\"() <{value = -2147483648 : i32}> : () -> i32|  %2 = \
    \"llvm.add\"(%0, %1) <{overflowFlags = 0 : i32}> : (i32, i32) -> i32|  %3 = \"llvm.mlir.constant\"() <{value = -1 \
    : i32}> : () -> i32|  %4 = \"llvm.add\"(%2, %3) <{overflowFlags = 0 : i32}> : (i32, i32) -> i32|  \
    \"llvm.return\"(%4) : (i32) -> () => (%0: i32):|  %1 = \"llvm.mlir.constant\"() <{value = -2147483648 : i32}> : () \
    -> i32|  %2 = \"llvm.add\"(%0, %1) <{overflowFlags = 0 : i32}> : (i32, i32) -> i32|  %3 = \"llvm.mlir.constant\"() \
    <{value = -1 : i32}> : () -> i32|  %5 = \"llvm.mlir.constant\"() <{value = 2147483647 : i32}> : () -> i32|  %6 = \
    \"llvm.add\"(%0, %5) : (i32, i32) -> i32|  %4 = \"llvm.add\"(%2, %3) <{overflowFlags = 0 : i32}> : (i32, i32) -> \
    i32|  \"llvm.return\"(%6) : (i32) -> ()
a sum that promises signs -- (%0: i32):|  %1 = \"llvm.mlir.constant\"() <{value = 3 : i32}> : () -> i32|  %2 = \
    \"llvm.add\"(%0, %1) <{overflowFlags = 1 : i32}> : (i32, i32) -> i32|  %3 = \"llvm.mlir.constant\"() <{value = 4 : \
    i32}> : () -> i32|  %4 = \"llvm.add\"(%2, %3) <{overflowFlags = 0 : i32}> : (i32, i32) -> i32|  \
    \"llvm.return\"(%4) : (i32) -> () => (%0: i32):|  %1 = \"llvm.mlir.constant\"() <{value = 3 : i32}> : () -> i32|  \
    %2 = \"llvm.add\"(%0, %1) <{overflowFlags = 1 : i32}> : (i32, i32) -> i32|  %3 = \"llvm.mlir.constant\"() <{value \
    = 4 : i32}> : () -> i32|  %4 = \"llvm.add\"(%2, %3) <{overflowFlags = 0 : i32}> : (i32, i32) -> i32|  \
    \"llvm.return\"(%4) : (i32) -> ()
at most -- (%0: i32):|  %1 = \"llvm.mlir.constant\"() <{value = 9 : i32}> : () -> i32|  %2 = \"llvm.icmp\"(%0, %1) \
    <{predicate = 3 : i64}> : (i32, i32) -> i1|  \"llvm.return\"(%2) : (i1) -> () => (%0: i32):|  %1 = \
    \"llvm.mlir.constant\"() <{value = 9 : i32}> : () -> i32|  %3 = \"llvm.mlir.constant\"() <{value = 10 : i32}> : () \
    -> i32|  %4 = \"llvm.icmp\"(%0, %3) <{predicate = 2 : i64}> : (i32, i32) -> i1|  %2 = \"llvm.icmp\"(%0, %1) \
    <{predicate = 3 : i64}> : (i32, i32) -> i1|  \"llvm.return\"(%4) : (i1) -> ()
at most the greatest -- (%0: i8):|  %1 = \"llvm.mlir.constant\"() <{value = 127 : i8}> : () -> i8|  %2 = \
    \"llvm.icmp\"(%0, %1) <{predicate = 3 : i64}> : (i8, i8) -> i1|  \"llvm.return\"(%2) : (i1) -> () => (%0: i8):|  %1 \
    = \"llvm.mlir.constant\"() <{value = 127 : i8}> : () -> i8|  %2 = \"llvm.icmp\"(%0, %1) <{predicate = 3 : i64}> : \
    (i8, i8) -> i1|  \"llvm.return\"(%2) : (i1) -> ()
at most -1 -- (%0: i64):|  %1 = \"llvm.mlir.constant\"() <{value = -1 : i64}> : () -> i64|  %2 = \"llvm.icmp\"(%0, %1) \
    <{predicate = 3 : i64}> : (i64, i64) -> i1|  \"llvm.return\"(%2) : (i1) -> () => (%0: i64):|  %1 = \
    \"llvm.mlir.constant\"() <{value = -1 : i64}> : () -> i64|  %3 = \"llvm.mlir.constant\"() <{value = 0 : i64}> : () \
    -> i64|  %4 = \"llvm.icmp\"(%0, %3) <{predicate = 2 : i64}> : (i64, i64) -> i1|  %2 = \"llvm.icmp\"(%0, %1) \
    <{predicate = 3 : i64}> : (i64, i64) -> i1|  \"llvm.return\"(%4) : (i1) -> ()
at least -- (%0: i8):|  %1 = \"llvm.mlir.constant\"() <{value = -127 : i8}> : () -> i8|  %2 = \"llvm.icmp\"(%0, %1) \
    <{predicate = 5 : i64}> : (i8, i8) -> i1|  \"llvm.return\"(%2) : (i1) -> () => (%0: i8):|  %1 = \
    \"llvm.mlir.constant\"() <{value = -127 : i8}> : () -> i8|  %3 = \"llvm.mlir.constant\"() <{value = -128 : i8}> : \
    () -> i8|  %4 = \"llvm.icmp\"(%0, %3) <{predicate = 4 : i64}> : (i8, i8) -> i1|  %2 = \"llvm.icmp\"(%0, %1) \
    <{predicate = 5 : i64}> : (i8, i8) -> i1|  \"llvm.return\"(%4) : (i1) -> ()
at least the least -- (%0: i8):|  %1 = \"llvm.mlir.constant\"() <{value = -128 : i8}> : () -> i8|  %2 = \
    \"llvm.icmp\"(%0, %1) <{predicate = 5 : i64}> : (i8, i8) -> i1|  \"llvm.return\"(%2) : (i1) -> () => (%0: i8):|  %1 \
    = \"llvm.mlir.constant\"() <{value = -128 : i8}> : () -> i8|  %2 = \"llvm.icmp\"(%0, %1) <{predicate = 5 : i64}> : \
    (i8, i8) -> i1|  \"llvm.return\"(%2) : (i1) -> ()
at least 0 -- (%0: i32):|  %1 = \"llvm.mlir.constant\"() <{value = 0 : i32}> : () -> i32|  %2 = \"llvm.icmp\"(%0, %1) \
    <{predicate = 5 : i64}> : (i32, i32) -> i1|  \"llvm.return\"(%2) : (i1) -> () => (%0: i32):|  %1 = \
    \"llvm.mlir.constant\"() <{value = 0 : i32}> : () -> i32|  %3 = \"llvm.mlir.constant\"() <{value = -1 : i32}> : () \
    -> i32|  %4 = \"llvm.icmp\"(%0, %3) <{predicate = 4 : i64}> : (i32, i32) -> i1|  %2 = \"llvm.icmp\"(%0, %1) \
    <{predicate = 5 : i64}> : (i32, i32) -> i1|  \"llvm.return\"(%4) : (i1) -> ()
at most, unsigned -- (%0: i8):|  %1 = \"llvm.mlir.constant\"() <{value = -2 : i8}> : () -> i8|  %2 = \"llvm.icmp\"(%0, \
    %1) <{predicate = 7 : i64}> : (i8, i8) -> i1|  \"llvm.return\"(%2) : (i1) -> () => (%0: i8):|  %1 = \
    \"llvm.mlir.constant\"() <{value = -2 : i8}> : () -> i8|  %3 = \"llvm.mlir.constant\"() <{value = -1 : i8}> : () \
    -> i8|  %4 = \"llvm.icmp\"(%0, %3) <{predicate = 6 : i64}> : (i8, i8) -> i1|  %2 = \"llvm.icmp\"(%0, %1) \
    <{predicate = 7 : i64}> : (i8, i8) -> i1|  \"llvm.return\"(%4) : (i1) -> ()
at most the greatest, unsigned -- (%0: i8):|  %1 = \"llvm.mlir.constant\"() <{value = -1 : i8}> : () -> i8|  %2 = \
    \"llvm.icmp\"(%0, %1) <{predicate = 7 : i64}> : (i8, i8) -> i1|  \"llvm.return\"(%2) : (i1) -> () => (%0: i8):|  %1 \
    = \"llvm.mlir.constant\"() <{value = -1 : i8}> : () -> i8|  %2 = \"llvm.icmp\"(%0, %1) <{predicate = 7 : i64}> : \
    (i8, i8) -> i1|  \"llvm.return\"(%2) : (i1) -> ()
at least, unsigned -- (%0: i16):|  %1 = \"llvm.mlir.constant\"() <{value = 1 : i16}> : () -> i16|  %2 = \
    \"llvm.icmp\"(%0, %1) <{predicate = 9 : i64}> : (i16, i16) -> i1|  \"llvm.return\"(%2) : (i1) -> () => (%0: i16):|  %1 \
    = \"llvm.mlir.constant\"() <{value = 1 : i16}> : () -> i16|  %3 = \"llvm.mlir.constant\"() <{value = 0 : i16}> : \
    () -> i16|  %4 = \"llvm.icmp\"(%0, %3) <{predicate = 8 : i64}> : (i16, i16) -> i1|  %2 = \"llvm.icmp\"(%0, %1) \
    <{predicate = 9 : i64}> : (i16, i16) -> i1|  \"llvm.return\"(%4) : (i1) -> ()
at least 0, unsigned -- (%0: i16):|  %1 = \"llvm.mlir.constant\"() <{value = 0 : i16}> : () -> i16|  %2 = \
    \"llvm.icmp\"(%0, %1) <{predicate = 9 : i64}> : (i16, i16) -> i1|  \"llvm.return\"(%2) : (i1) -> () => (%0: i16):|  %1 \
    = \"llvm.mlir.constant\"() <{value = 0 : i16}> : () -> i16|  %2 = \"llvm.icmp\"(%0, %1) <{predicate = 9 : i64}> : \
    (i16, i16) -> i1|  \"llvm.return\"(%2) : (i1) -> ()
less -- (%0: i32):|  %1 = \"llvm.mlir.constant\"() <{value = 9 : i32}> : () -> i32|  %2 = \"llvm.icmp\"(%0, %1) \
    <{predicate = 2 : i64}> : (i32, i32) -> i1|  \"llvm.return\"(%2) : (i1) -> () => (%0: i32):|  %1 = \
    \"llvm.mlir.constant\"() <{value = 9 : i32}> : () -> i32|  %2 = \"llvm.icmp\"(%0, %1) <{predicate = 2 : i64}> : \
    (i32, i32) -> i1|  \"llvm.return\"(%2) : (i1) -> ()
a constant is less -- (%0: i32):|  %1 = \"llvm.mlir.constant\"() <{value = 5 : i32}> : () -> i32|  %2 = \
    \"llvm.icmp\"(%1, %0) <{predicate = 2 : i64}> : (i32, i32) -> i1|  \"llvm.return\"(%2) : (i1) -> () => (%0: i32):|  %1 \
    = \"llvm.mlir.constant\"() <{value = 5 : i32}> : () -> i32|  %3 = \"llvm.icmp\"(%0, %1) <{predicate = 4 : i64}> : \
    (i32, i32) -> i1|  %2 = \"llvm.icmp\"(%1, %0) <{predicate = 2 : i64}> : (i32, i32) -> i1|  \"llvm.return\"(%3) : \
    (i1) -> ()
a constant is greater, unsigned -- (%0: i32):|  %1 = \"llvm.mlir.constant\"() <{value = 5 : i32}> : () -> i32|  %2 = \
    \"llvm.icmp\"(%1, %0) <{predicate = 8 : i64}> : (i32, i32) -> i1|  \"llvm.return\"(%2) : (i1) -> () => (%0: i32):|  %1 \
    = \"llvm.mlir.constant\"() <{value = 5 : i32}> : () -> i32|  %3 = \"llvm.icmp\"(%0, %1) <{predicate = 6 : i64}> : \
    (i32, i32) -> i1|  %2 = \"llvm.icmp\"(%1, %0) <{predicate = 8 : i64}> : (i32, i32) -> i1|  \"llvm.return\"(%3) : \
    (i1) -> ()
a constant is equal -- (%0: i64):|  %1 = \"llvm.mlir.constant\"() <{value = 5 : i64}> : () -> i64|  %2 = \
    \"llvm.icmp\"(%1, %0) <{predicate = 0 : i64}> : (i64, i64) -> i1|  \"llvm.return\"(%2) : (i1) -> () => (%0: i64):|  %1 \
    = \"llvm.mlir.constant\"() <{value = 5 : i64}> : () -> i64|  %3 = \"llvm.icmp\"(%0, %1) <{predicate = 0 : i64}> : \
    (i64, i64) -> i1|  %2 = \"llvm.icmp\"(%1, %0) <{predicate = 0 : i64}> : (i64, i64) -> i1|  \"llvm.return\"(%3) : \
    (i1) -> ()
two constants that are compared -- (%0: i32):|  %1 = \"llvm.mlir.constant\"() <{value = 5 : i32}> : () -> i32|  %2 = \
    \"llvm.mlir.constant\"() <{value = 7 : i32}> : () -> i32|  %3 = \"llvm.icmp\"(%1, %2) <{predicate = 2 : i64}> : \
    (i32, i32) -> i1|  \"llvm.return\"(%3) : (i1) -> () => (%0: i32):|  %1 = \"llvm.mlir.constant\"() <{value = 5 : \
    i32}> : () -> i32|  %2 = \"llvm.mlir.constant\"() <{value = 7 : i32}> : () -> i32|  %3 = \"llvm.icmp\"(%1, %2) \
    <{predicate = 2 : i64}> : (i32, i32) -> i1|  \"llvm.return\"(%3) : (i1) -> ()
a constant and a value -- (%0: i32):|  %1 = \"llvm.mlir.constant\"() <{value = 5 : i32}> : () -> i32|  %2 = \
    \"llvm.add\"(%1, %0) <{overflowFlags = #llvm.overflow<nsw>}> : (i32, i32) -> i32|  \"llvm.return\"(%2) : (i32) -> \
    () => (%0: i32):|  %1 = \"llvm.mlir.constant\"() <{value = 5 : i32}> : () -> i32|  %3 = \"llvm.add\"(%0, %1) \
    <{overflowFlags = #llvm.overflow<nsw>}> : (i32, i32) -> i32|  %2 = \"llvm.add\"(%1, %0) <{overflowFlags = \
    #llvm.overflow<nsw>}> : (i32, i32) -> i32|  \"llvm.return\"(%3) : (i32) -> ()
a constant less a value -- (%0: i32):|  %1 = \"llvm.mlir.constant\"() <{value = 5 : i32}> : () -> i32|  %2 = \
    \"llvm.sub\"(%1, %0) <{overflowFlags = #llvm.overflow<nsw>}> : (i32, i32) -> i32|  \"llvm.return\"(%2) : (i32) -> \
    () => (%0: i32):|  %1 = \"llvm.mlir.constant\"() <{value = 5 : i32}> : () -> i32|  %2 = \"llvm.sub\"(%1, %0) \
    <{overflowFlags = #llvm.overflow<nsw>}> : (i32, i32) -> i32|  \"llvm.return\"(%2) : (i32) -> ()
a constant times a value -- (%0: i32):|  %1 = \"llvm.mlir.constant\"() <{value = 5 : i32}> : () -> i32|  %2 = \
    \"llvm.mul\"(%1, %0) <{overflowFlags = #llvm.overflow<nuw>}> : (i32, i32) -> i32|  \"llvm.return\"(%2) : (i32) -> \
    () => (%0: i32):|  %1 = \"llvm.mlir.constant\"() <{value = 5 : i32}> : () -> i32|  %3 = \"llvm.mul\"(%0, %1) \
    <{overflowFlags = #llvm.overflow<nuw>}> : (i32, i32) -> i32|  %2 = \"llvm.mul\"(%1, %0) <{overflowFlags = \
    #llvm.overflow<nuw>}> : (i32, i32) -> i32|  \"llvm.return\"(%3) : (i32) -> ()
bits of a constant and a value -- (%0: i32):|  %1 = \"llvm.mlir.constant\"() <{value = 5 : i32}> : () -> i32|  %2 = \
    \"llvm.and\"(%1, %0) : (i32, i32) -> i32|  \"llvm.return\"(%2) : (i32) -> () => (%0: i32):|  %1 = \
    \"llvm.mlir.constant\"() <{value = 5 : i32}> : () -> i32|  %3 = \"llvm.and\"(%0, %1) : (i32, i32) -> i32|  %2 = \
    \"llvm.and\"(%1, %0) : (i32, i32) -> i32|  \"llvm.return\"(%3) : (i32) -> ()
a constant or a value, disjoint -- (%0: i32):|  %1 = \"llvm.mlir.constant\"() <{value = 5 : i32}> : () -> i32|  %2 = \
    \"llvm.or\"(%1, %0) <{isDisjoint}> : (i32, i32) -> i32|  \"llvm.return\"(%2) : (i32) -> () => (%0: i32):|  %1 = \
    \"llvm.mlir.constant\"() <{value = 5 : i32}> : () -> i32|  %3 = \"llvm.or\"(%0, %1) <{isDisjoint}> : (i32, i32) -> \
    i32|  %2 = \"llvm.or\"(%1, %0) <{isDisjoint}> : (i32, i32) -> i32|  \"llvm.return\"(%3) : (i32) -> ()
a constant xor a value -- (%0: i32):|  %1 = \"llvm.mlir.constant\"() <{value = 5 : i32}> : () -> i32|  %2 = \
    \"llvm.xor\"(%1, %0) : (i32, i32) -> i32|  \"llvm.return\"(%2) : (i32) -> () => (%0: i32):|  %1 = \
    \"llvm.mlir.constant\"() <{value = 5 : i32}> : () -> i32|  %3 = \"llvm.xor\"(%0, %1) : (i32, i32) -> i32|  %2 = \
    \"llvm.xor\"(%1, %0) : (i32, i32) -> i32|  \"llvm.return\"(%3) : (i32) -> ()
two constants that are added -- (%0: i32):|  %1 = \"llvm.mlir.constant\"() <{value = 5 : i32}> : () -> i32|  %2 = \
    \"llvm.mlir.constant\"() <{value = 7 : i32}> : () -> i32|  %3 = \"llvm.add\"(%1, %2) : (i32, i32) -> i32|  \"llvm.return\"(%3) \
    : (i32) -> () => (%0: i32):|  %1 = \"llvm.mlir.constant\"() <{value = 5 : i32}> : () -> i32|  %2 = \
    \"llvm.mlir.constant\"() <{value = 7 : i32}> : () -> i32|  %3 = \"llvm.add\"(%1, %2) : (i32, i32) -> i32|  \"llvm.return\"(%3) \
    : (i32) -> ()
sign extensions, unsigned -- (%0: i8, %1: i8):|  %2 = \"llvm.sext\"(%0) : (i8) -> i32|  %3 = \"llvm.sext\"(%1) : (i8) \
    -> i32|  %4 = \"llvm.icmp\"(%2, %3) <{predicate = 6 : i64}> : (i32, i32) -> i1|  \"llvm.return\"(%4) : (i1) -> () \
    => (%0: i8, %1: i8):|  %2 = \"llvm.sext\"(%0) : (i8) -> i32|  %3 = \"llvm.sext\"(%1) : (i8) -> i32|  %5 = \
    \"llvm.icmp\"(%0, %1) <{predicate = 6 : i64}> : (i8, i8) -> i1|  %4 = \"llvm.icmp\"(%2, %3) <{predicate = 6 : \
    i64}> : (i32, i32) -> i1|  \"llvm.return\"(%5) : (i1) -> ()
sign extensions, signed -- (%0: i8, %1: i8):|  %2 = \"llvm.sext\"(%0) : (i8) -> i32|  %3 = \"llvm.sext\"(%1) : (i8) -> \
    i32|  %4 = \"llvm.icmp\"(%2, %3) <{predicate = 4 : i64}> : (i32, i32) -> i1|  \"llvm.return\"(%4) : (i1) -> () => \
    (%0: i8, %1: i8):|  %2 = \"llvm.sext\"(%0) : (i8) -> i32|  %3 = \"llvm.sext\"(%1) : (i8) -> i32|  %5 = \
    \"llvm.icmp\"(%0, %1) <{predicate = 4 : i64}> : (i8, i8) -> i1|  %4 = \"llvm.icmp\"(%2, %3) <{predicate = 4 : \
    i64}> : (i32, i32) -> i1|  \"llvm.return\"(%5) : (i1) -> ()
sign extensions of other widths -- (%0: i8, %1: i16):|  %2 = \"llvm.sext\"(%0) : (i8) -> i32|  %3 = \"llvm.sext\"(%1) \
    : (i16) -> i32|  %4 = \"llvm.icmp\"(%2, %3) <{predicate = 0 : i64}> : (i32, i32) -> i1|  \"llvm.return\"(%4) : \
    (i1) -> () => (%0: i8, %1: i16):|  %2 = \"llvm.sext\"(%0) : (i8) -> i32|  %3 = \"llvm.sext\"(%1) : (i16) -> i32|  %4 \
    = \"llvm.icmp\"(%2, %3) <{predicate = 0 : i64}> : (i32, i32) -> i1|  \"llvm.return\"(%4) : (i1) -> ()
a sign extension and a negative constant -- (%0: i8):|  %1 = \"llvm.mlir.constant\"() <{value = -100 : i32}> : () -> \
    i32|  %2 = \"llvm.sext\"(%0) : (i8) -> i32|  %3 = \"llvm.icmp\"(%2, %1) <{predicate = 6 : i64}> : (i32, i32) -> \
    i1|  \"llvm.return\"(%3) : (i1) -> () => (%0: i8):|  %1 = \"llvm.mlir.constant\"() <{value = -100 : i32}> : () -> \
    i32|  %2 = \"llvm.sext\"(%0) : (i8) -> i32|  %4 = \"llvm.mlir.constant\"() <{value = -100 : i8}> : () -> i8|  %5 = \
    \"llvm.icmp\"(%0, %4) <{predicate = 6 : i64}> : (i8, i8) -> i1|  %3 = \"llvm.icmp\"(%2, %1) <{predicate = 6 : \
    i64}> : (i32, i32) -> i1|  \"llvm.return\"(%5) : (i1) -> ()
a sign extension and a constant -- (%0: i8):|  %1 = \"llvm.mlir.constant\"() <{value = 127 : i64}> : () -> i64|  %2 = \
    \"llvm.sext\"(%0) : (i8) -> i64|  %3 = \"llvm.icmp\"(%2, %1) <{predicate = 2 : i64}> : (i64, i64) -> i1|  \"llvm.return\"(%3) \
    : (i1) -> () => (%0: i8):|  %1 = \"llvm.mlir.constant\"() <{value = 127 : i64}> : () -> i64|  %2 = \
    \"llvm.sext\"(%0) : (i8) -> i64|  %4 = \"llvm.mlir.constant\"() <{value = 127 : i8}> : () -> i8|  %5 = \
    \"llvm.icmp\"(%0, %4) <{predicate = 2 : i64}> : (i8, i8) -> i1|  %3 = \"llvm.icmp\"(%2, %1) <{predicate = 2 : \
    i64}> : (i64, i64) -> i1|  \"llvm.return\"(%5) : (i1) -> ()
a sign extension and a constant out of reach -- (%0: i8):|  %1 = \"llvm.mlir.constant\"() <{value = 128 : i64}> : () \
    -> i64|  %2 = \"llvm.sext\"(%0) : (i8) -> i64|  %3 = \"llvm.icmp\"(%2, %1) <{predicate = 2 : i64}> : (i64, i64) -> \
    i1|  \"llvm.return\"(%3) : (i1) -> () => (%0: i8):|  %1 = \"llvm.mlir.constant\"() <{value = 128 : i64}> : () -> \
    i64|  %2 = \"llvm.sext\"(%0) : (i8) -> i64|  %3 = \"llvm.icmp\"(%2, %1) <{predicate = 2 : i64}> : (i64, i64) -> \
    i1|  \"llvm.return\"(%3) : (i1) -> ()
a sign extension and a zero extension -- (%0: i8, %1: i8):|  %2 = \"llvm.sext\"(%0) : (i8) -> i32|  %3 = \
    \"llvm.zext\"(%1) : (i8) -> i32|  %4 = \"llvm.icmp\"(%2, %3) <{predicate = 0 : i64}> : (i32, i32) -> i1|  \"llvm.return\"(%4) \
    : (i1) -> () => (%0: i8, %1: i8):|  %2 = \"llvm.sext\"(%0) : (i8) -> i32|  %3 = \"llvm.zext\"(%1) : (i8) -> i32|  %4 \
    = \"llvm.icmp\"(%2, %3) <{predicate = 0 : i64}> : (i32, i32) -> i1|  \"llvm.return\"(%4) : (i1) -> ()
times the least number, without signs -- (%0: i8):|  %1 = \"llvm.mlir.constant\"() <{value = -128 : i8}> : () -> i8|  %2 \
    = \"llvm.mul\"(%0, %1) <{overflowFlags = #llvm.overflow<nuw>}> : (i8, i8) -> i8|  \"llvm.return\"(%2) : (i8) -> () \
    => (%0: i8):|  %1 = \"llvm.mlir.constant\"() <{value = -128 : i8}> : () -> i8|  %3 = \"llvm.mlir.constant\"() \
    <{value = 7 : i8}> : () -> i8|  %4 = \"llvm.shl\"(%0, %3) <{overflowFlags = #llvm.overflow<nuw>}> : (i8, i8) -> \
    i8|  %2 = \"llvm.mul\"(%0, %1) <{overflowFlags = #llvm.overflow<nuw>}> : (i8, i8) -> i8|  \"llvm.return\"(%4) : \
    (i8) -> ()
times the least number, with signs -- (%0: i8):|  %1 = \"llvm.mlir.constant\"() <{value = -128 : i8}> : () -> i8|  %2 \
    = \"llvm.mul\"(%0, %1) <{overflowFlags = #llvm.overflow<nsw>}> : (i8, i8) -> i8|  \"llvm.return\"(%2) : (i8) -> () \
    => (%0: i8):|  %1 = \"llvm.mlir.constant\"() <{value = -128 : i8}> : () -> i8|  %2 = \"llvm.mul\"(%0, %1) \
    <{overflowFlags = #llvm.overflow<nsw>}> : (i8, i8) -> i8|  \"llvm.return\"(%2) : (i8) -> ()
times 3 -- (%0: i32):|  %1 = \"llvm.mlir.constant\"() <{value = 3 : i32}> : () -> i32|  %2 = \"llvm.mul\"(%0, %1) : \
    (i32, i32) -> i32|  \"llvm.return\"(%2) : (i32) -> () => (%0: i32):|  %1 = \"llvm.mlir.constant\"() <{value = 3 : \
    i32}> : () -> i32|  %2 = \"llvm.mul\"(%0, %1) : (i32, i32) -> i32|  \"llvm.return\"(%2) : (i32) -> ()
times 1 -- (%0: i32):|  %1 = \"llvm.mlir.constant\"() <{value = 1 : i32}> : () -> i32|  %2 = \"llvm.mul\"(%0, %1) : \
    (i32, i32) -> i32|  \"llvm.return\"(%2) : (i32) -> () => (%0: i32):|  %1 = \"llvm.mlir.constant\"() <{value = 1 : \
    i32}> : () -> i32|  %2 = \"llvm.mul\"(%0, %1) : (i32, i32) -> i32|  \"llvm.return\"(%2) : (i32) -> ()
divided by the greatest power -- (%0: i64):|  %1 = \"llvm.mlir.constant\"() <{value = -9223372036854775808 : i64}> : \
    () -> i64|  %2 = \"llvm.udiv\"(%0, %1) : (i64, i64) -> i64|  \"llvm.return\"(%2) : (i64) -> () => (%0: i64):|  %1 \
    = \"llvm.mlir.constant\"() <{value = -9223372036854775808 : i64}> : () -> i64|  %3 = \"llvm.mlir.constant\"() \
    <{value = 63 : i64}> : () -> i64|  %4 = \"llvm.lshr\"(%0, %3) : (i64, i64) -> i64|  %2 = \"llvm.udiv\"(%0, %1) : \
    (i64, i64) -> i64|  \"llvm.return\"(%4) : (i64) -> ()
divided by 0 -- (%0: i32):|  %1 = \"llvm.mlir.constant\"() <{value = 0 : i32}> : () -> i32|  %2 = \"llvm.udiv\"(%0, \
    %1) : (i32, i32) -> i32|  \"llvm.return\"(%2) : (i32) -> () => (%0: i32):|  %1 = \"llvm.mlir.constant\"() <{value \
    = 0 : i32}> : () -> i32|  %2 = \"llvm.udiv\"(%0, %1) : (i32, i32) -> i32|  \"llvm.return\"(%2) : (i32) -> ()
the rest of the greatest power -- (%0: i8):|  %1 = \"llvm.mlir.constant\"() <{value = -128 : i8}> : () -> i8|  %2 = \
    \"llvm.urem\"(%0, %1) : (i8, i8) -> i8|  \"llvm.return\"(%2) : (i8) -> () => (%0: i8):|  %1 = \
    \"llvm.mlir.constant\"() <{value = -128 : i8}> : () -> i8|  %3 = \"llvm.mlir.constant\"() <{value = 127 : i8}> : \
    () -> i8|  %4 = \"llvm.and\"(%0, %3) : (i8, i8) -> i8|  %2 = \"llvm.urem\"(%0, %1) : (i8, i8) -> i8|  \"llvm.return\"(%4) \
    : (i8) -> ()
the signed rest -- (%0: i8):|  %1 = \"llvm.mlir.constant\"() <{value = 4 : i8}> : () -> i8|  %2 = \"llvm.srem\"(%0, \
    %1) : (i8, i8) -> i8|  \"llvm.return\"(%2) : (i8) -> () => (%0: i8):|  %1 = \"llvm.mlir.constant\"() <{value = 4 : \
    i8}> : () -> i8|  %2 = \"llvm.srem\"(%0, %1) : (i8, i8) -> i8|  \"llvm.return\"(%2) : (i8) -> ()
a sum equals -- (%0: i32):|  %1 = \"llvm.mlir.constant\"() <{value = 3 : i32}> : () -> i32|  %2 = \
    \"llvm.mlir.constant\"() <{value = 10 : i32}> : () -> i32|  %3 = \"llvm.add\"(%0, %1) : (i32, i32) -> i32|  %4 = \
    \"llvm.icmp\"(%3, %2) <{predicate = 0 : i64}> : (i32, i32) -> i1|  \"llvm.return\"(%4) : (i1) -> () => (%0: \
    i32):|  %1 = \"llvm.mlir.constant\"() <{value = 3 : i32}> : () -> i32|  %2 = \"llvm.mlir.constant\"() <{value = \
    10 : i32}> : () -> i32|  %3 = \"llvm.add\"(%0, %1) : (i32, i32) -> i32|  %5 = \"llvm.mlir.constant\"() <{value = \
    7 : i32}> : () -> i32|  %6 = \"llvm.icmp\"(%0, %5) <{predicate = 0 : i64}> : (i32, i32) -> i1|  %4 = \
    \"llvm.icmp\"(%3, %2) <{predicate = 0 : i64}> : (i32, i32) -> i1|  \"llvm.return\"(%6) : (i1) -> ()
a difference is 0 -- (%0: i32, %1: i32):|  %2 = \"llvm.mlir.constant\"() <{value = 0 : i32}> : () -> i32|  %3 = \
    \"llvm.sub\"(%0, %1) : (i32, i32) -> i32|  %4 = \"llvm.icmp\"(%3, %2) <{predicate = 0 : i64}> : (i32, i32) -> i1|  \
    \"llvm.return\"(%4) : (i1) -> () => (%0: i32, %1: i32):|  %2 = \"llvm.mlir.constant\"() <{value = 0 : i32}> : () \
    -> i32|  %3 = \"llvm.sub\"(%0, %1) : (i32, i32) -> i32|  %5 = \"llvm.icmp\"(%0, %1) <{predicate = 0 : i64}> : \
    (i32, i32) -> i1|  %4 = \"llvm.icmp\"(%3, %2) <{predicate = 0 : i64}> : (i32, i32) -> i1|  \"llvm.return\"(%5) : \
    (i1) -> ()
a difference isn't 0 -- (%0: i32, %1: i32):|  %2 = \"llvm.mlir.constant\"() <{value = 0 : i32}> : () -> i32|  %3 = \
    \"llvm.sub\"(%0, %1) : (i32, i32) -> i32|  %4 = \"llvm.icmp\"(%3, %2) <{predicate = 1 : i64}> : (i32, i32) -> i1|  \
    \"llvm.return\"(%4) : (i1) -> () => (%0: i32, %1: i32):|  %2 = \"llvm.mlir.constant\"() <{value = 0 : i32}> : () \
    -> i32|  %3 = \"llvm.sub\"(%0, %1) : (i32, i32) -> i32|  %5 = \"llvm.icmp\"(%0, %1) <{predicate = 1 : i64}> : \
    (i32, i32) -> i1|  %4 = \"llvm.icmp\"(%3, %2) <{predicate = 1 : i64}> : (i32, i32) -> i1|  \"llvm.return\"(%5) : \
    (i1) -> ()
an exclusion is 0 -- (%0: i32, %1: i32):|  %2 = \"llvm.mlir.constant\"() <{value = 0 : i32}> : () -> i32|  %3 = \
    \"llvm.xor\"(%0, %1) : (i32, i32) -> i32|  %4 = \"llvm.icmp\"(%3, %2) <{predicate = 0 : i64}> : (i32, i32) -> i1|  \
    \"llvm.return\"(%4) : (i1) -> () => (%0: i32, %1: i32):|  %2 = \"llvm.mlir.constant\"() <{value = 0 : i32}> : () \
    -> i32|  %3 = \"llvm.xor\"(%0, %1) : (i32, i32) -> i32|  %5 = \"llvm.icmp\"(%0, %1) <{predicate = 0 : i64}> : \
    (i32, i32) -> i1|  %4 = \"llvm.icmp\"(%3, %2) <{predicate = 0 : i64}> : (i32, i32) -> i1|  \"llvm.return\"(%5) : \
    (i1) -> ()
an exclusion isn't 0 -- (%0: i8, %1: i8):|  %2 = \"llvm.mlir.constant\"() <{value = 0 : i8}> : () -> i8|  %3 = \
    \"llvm.xor\"(%0, %1) : (i8, i8) -> i8|  %4 = \"llvm.icmp\"(%3, %2) <{predicate = 1 : i64}> : (i8, i8) -> i1|  \
    \"llvm.return\"(%4) : (i1) -> () => (%0: i8, %1: i8):|  %2 = \"llvm.mlir.constant\"() <{value = 0 : i8}> : () -> \
    i8|  %3 = \"llvm.xor\"(%0, %1) : (i8, i8) -> i8|  %5 = \"llvm.icmp\"(%0, %1) <{predicate = 1 : i64}> : (i8, i8) \
    -> i1|  %4 = \"llvm.icmp\"(%3, %2) <{predicate = 1 : i64}> : (i8, i8) -> i1|  \"llvm.return\"(%5) : (i1) -> ()
a difference that promises signs is 0 -- (%0: i32, %1: i32):|  %2 = \"llvm.mlir.constant\"() <{value = 0 : i32}> : () \
    -> i32|  %3 = \"llvm.sub\"(%0, %1) <{overflowFlags = #llvm.overflow<nsw>}> : (i32, i32) -> i32|  %4 = \
    \"llvm.icmp\"(%3, %2) <{predicate = 0 : i64}> : (i32, i32) -> i1|  \"llvm.return\"(%4) : (i1) -> () => (%0: i32, \
    %1: i32):|  %2 = \"llvm.mlir.constant\"() <{value = 0 : i32}> : () -> i32|  %3 = \"llvm.sub\"(%0, %1) \
    <{overflowFlags = #llvm.overflow<nsw>}> : (i32, i32) -> i32|  %4 = \"llvm.icmp\"(%3, %2) <{predicate = 0 : i64}> \
    : (i32, i32) -> i1|  \"llvm.return\"(%4) : (i1) -> ()
a difference is less than 0 -- (%0: i32, %1: i32):|  %2 = \"llvm.mlir.constant\"() <{value = 0 : i32}> : () -> i32|  \
    %3 = \"llvm.sub\"(%0, %1) : (i32, i32) -> i32|  %4 = \"llvm.icmp\"(%3, %2) <{predicate = 2 : i64}> : (i32, i32) \
    -> i1|  \"llvm.return\"(%4) : (i1) -> () => (%0: i32, %1: i32):|  %2 = \"llvm.mlir.constant\"() <{value = 0 : \
    i32}> : () -> i32|  %3 = \"llvm.sub\"(%0, %1) : (i32, i32) -> i32|  %4 = \"llvm.icmp\"(%3, %2) <{predicate = 2 : \
    i64}> : (i32, i32) -> i1|  \"llvm.return\"(%4) : (i1) -> ()
a difference is 1 -- (%0: i32, %1: i32):|  %2 = \"llvm.mlir.constant\"() <{value = 1 : i32}> : () -> i32|  %3 = \
    \"llvm.sub\"(%0, %1) : (i32, i32) -> i32|  %4 = \"llvm.icmp\"(%3, %2) <{predicate = 0 : i64}> : (i32, i32) -> i1|  \
    \"llvm.return\"(%4) : (i1) -> () => (%0: i32, %1: i32):|  %2 = \"llvm.mlir.constant\"() <{value = 1 : i32}> : () \
    -> i32|  %3 = \"llvm.sub\"(%0, %1) : (i32, i32) -> i32|  %4 = \"llvm.icmp\"(%3, %2) <{predicate = 0 : i64}> : \
    (i32, i32) -> i1|  \"llvm.return\"(%4) : (i1) -> ()
a sum is 0 -- (%0: i32, %1: i32):|  %2 = \"llvm.mlir.constant\"() <{value = 0 : i32}> : () -> i32|  %3 = \
    \"llvm.add\"(%0, %1) : (i32, i32) -> i32|  %4 = \"llvm.icmp\"(%3, %2) <{predicate = 0 : i64}> : (i32, i32) -> i1|  \
    \"llvm.return\"(%4) : (i1) -> () => (%0: i32, %1: i32):|  %2 = \"llvm.mlir.constant\"() <{value = 0 : i32}> : () \
    -> i32|  %3 = \"llvm.add\"(%0, %1) : (i32, i32) -> i32|  %4 = \"llvm.icmp\"(%3, %2) <{predicate = 0 : i64}> : \
    (i32, i32) -> i1|  \"llvm.return\"(%4) : (i1) -> ()
a difference is 0, inverted -- (%0: i32, %1: i32):|  %2 = \"llvm.mlir.constant\"() <{value = 0 : i32}> : () -> i32|  \
    %3 = \"llvm.mlir.constant\"() <{value = true}> : () -> i1|  %4 = \"llvm.sub\"(%0, %1) : (i32, i32) -> i32|  %5 = \
    \"llvm.icmp\"(%4, %2) <{predicate = 0 : i64}> : (i32, i32) -> i1|  %6 = \"llvm.xor\"(%5, %3) : (i1, i1) -> i1|  \
    \"llvm.return\"(%6) : (i1) -> () => (%0: i32, %1: i32):|  %2 = \"llvm.mlir.constant\"() <{value = 0 : i32}> : () \
    -> i32|  %3 = \"llvm.mlir.constant\"() <{value = true}> : () -> i1|  %4 = \"llvm.sub\"(%0, %1) : (i32, i32) -> \
    i32|  %7 = \"llvm.icmp\"(%0, %1) <{predicate = 0 : i64}> : (i32, i32) -> i1|  %5 = \"llvm.icmp\"(%4, %2) \
    <{predicate = 0 : i64}> : (i32, i32) -> i1|  %8 = \"llvm.icmp\"(%0, %1) <{predicate = 1 : i64}> : (i32, i32) -> \
    i1|  %6 = \"llvm.xor\"(%7, %3) : (i1, i1) -> i1|  \"llvm.return\"(%8) : (i1) -> ()
a mask of a mask -- (%0: i32):|  %1 = \"llvm.mlir.constant\"() <{value = 12 : i32}> : () -> i32|  %2 = \
    \"llvm.and\"(%0, %1) : (i32, i32) -> i32|  %3 = \"llvm.mlir.constant\"() <{value = 6 : i32}> : () -> i32|  %4 = \
    \"llvm.and\"(%2, %3) : (i32, i32) -> i32|  \"llvm.return\"(%4) : (i32) -> () => (%0: i32):|  %1 = \
    \"llvm.mlir.constant\"() <{value = 12 : i32}> : () -> i32|  %2 = \"llvm.and\"(%0, %1) : (i32, i32) -> i32|  %3 = \
    \"llvm.mlir.constant\"() <{value = 6 : i32}> : () -> i32|  %5 = \"llvm.mlir.constant\"() <{value = 4 : i32}> : () \
    -> i32|  %6 = \"llvm.and\"(%0, %5) : (i32, i32) -> i32|  %4 = \"llvm.and\"(%2, %3) : (i32, i32) -> i32|  \
    \"llvm.return\"(%6) : (i32) -> ()
masks without common bits -- (%0: i32):|  %1 = \"llvm.mlir.constant\"() <{value = 8 : i32}> : () -> i32|  %2 = \
    \"llvm.and\"(%0, %1) : (i32, i32) -> i32|  %3 = \"llvm.mlir.constant\"() <{value = 6 : i32}> : () -> i32|  %4 = \
    \"llvm.and\"(%2, %3) : (i32, i32) -> i32|  \"llvm.return\"(%4) : (i32) -> () => (%0: i32):|  %1 = \
    \"llvm.mlir.constant\"() <{value = 8 : i32}> : () -> i32|  %2 = \"llvm.and\"(%0, %1) : (i32, i32) -> i32|  %3 = \
    \"llvm.mlir.constant\"() <{value = 6 : i32}> : () -> i32|  %4 = \"llvm.and\"(%2, %3) : (i32, i32) -> i32|  \
    \"llvm.return\"(%4) : (i32) -> ()
bits and more bits -- (%0: i8):|  %1 = \"llvm.mlir.constant\"() <{value = 1 : i8}> : () -> i8|  %2 = \"llvm.or\"(%0, \
    %1) : (i8, i8) -> i8|  %3 = \"llvm.mlir.constant\"() <{value = 6 : i8}> : () -> i8|  %4 = \"llvm.or\"(%2, %3) : \
    (i8, i8) -> i8|  \"llvm.return\"(%4) : (i8) -> () => (%0: i8):|  %1 = \"llvm.mlir.constant\"() <{value = 1 : i8}> \
    : () -> i8|  %2 = \"llvm.or\"(%0, %1) : (i8, i8) -> i8|  %3 = \"llvm.mlir.constant\"() <{value = 6 : i8}> : () -> \
    i8|  %5 = \"llvm.mlir.constant\"() <{value = 7 : i8}> : () -> i8|  %6 = \"llvm.or\"(%0, %5) : (i8, i8) -> i8|  %4 \
    = \"llvm.or\"(%2, %3) : (i8, i8) -> i8|  \"llvm.return\"(%6) : (i8) -> ()
all bits -- (%0: i8):|  %1 = \"llvm.mlir.constant\"() <{value = 15 : i8}> : () -> i8|  %2 = \"llvm.or\"(%0, %1) : \
    (i8, i8) -> i8|  %3 = \"llvm.mlir.constant\"() <{value = -16 : i8}> : () -> i8|  %4 = \"llvm.or\"(%2, %3) : (i8, \
    i8) -> i8|  \"llvm.return\"(%4) : (i8) -> () => (%0: i8):|  %1 = \"llvm.mlir.constant\"() <{value = 15 : i8}> : \
    () -> i8|  %2 = \"llvm.or\"(%0, %1) : (i8, i8) -> i8|  %3 = \"llvm.mlir.constant\"() <{value = -16 : i8}> : () -> \
    i8|  %4 = \"llvm.or\"(%2, %3) : (i8, i8) -> i8|  \"llvm.return\"(%4) : (i8) -> ()
all bits of a wide integer -- (%0: i64):|  %1 = \"llvm.mlir.constant\"() <{value = 1 : i64}> : () -> i64|  %2 = \
    \"llvm.or\"(%0, %1) : (i64, i64) -> i64|  %3 = \"llvm.mlir.constant\"() <{value = -2 : i64}> : () -> i64|  %4 = \
    \"llvm.or\"(%2, %3) : (i64, i64) -> i64|  \"llvm.return\"(%4) : (i64) -> () => (%0: i64):|  %1 = \
    \"llvm.mlir.constant\"() <{value = 1 : i64}> : () -> i64|  %2 = \"llvm.or\"(%0, %1) : (i64, i64) -> i64|  %3 = \
    \"llvm.mlir.constant\"() <{value = -2 : i64}> : () -> i64|  %4 = \"llvm.or\"(%2, %3) : (i64, i64) -> i64|  \
    \"llvm.return\"(%4) : (i64) -> ()
bits that must be others -- (%0: i8):|  %1 = \"llvm.mlir.constant\"() <{value = 1 : i8}> : () -> i8|  %2 = \
    \"llvm.or\"(%0, %1) : (i8, i8) -> i8|  %3 = \"llvm.mlir.constant\"() <{value = 6 : i8}> : () -> i8|  %4 = \
    \"llvm.or\"(%2, %3) <{isDisjoint}> : (i8, i8) -> i8|  \"llvm.return\"(%4) : (i8) -> () => (%0: i8):|  %1 = \
    \"llvm.mlir.constant\"() <{value = 1 : i8}> : () -> i8|  %2 = \"llvm.or\"(%0, %1) : (i8, i8) -> i8|  %3 = \
    \"llvm.mlir.constant\"() <{value = 6 : i8}> : () -> i8|  %4 = \"llvm.or\"(%2, %3) <{isDisjoint}> : (i8, i8) -> \
    i8|  \"llvm.return\"(%4) : (i8) -> ()
bits that had to be others -- (%0: i8):|  %1 = \"llvm.mlir.constant\"() <{value = 1 : i8}> : () -> i8|  %2 = \
    \"llvm.or\"(%0, %1) <{isDisjoint}> : (i8, i8) -> i8|  %3 = \"llvm.mlir.constant\"() <{value = 6 : i8}> : () -> \
    i8|  %4 = \"llvm.or\"(%2, %3) : (i8, i8) -> i8|  \"llvm.return\"(%4) : (i8) -> () => (%0: i8):|  %1 = \
    \"llvm.mlir.constant\"() <{value = 1 : i8}> : () -> i8|  %2 = \"llvm.or\"(%0, %1) <{isDisjoint}> : (i8, i8) -> \
    i8|  %3 = \"llvm.mlir.constant\"() <{value = 6 : i8}> : () -> i8|  %4 = \"llvm.or\"(%2, %3) : (i8, i8) -> i8|  \
    \"llvm.return\"(%4) : (i8) -> ()
an exclusion of an exclusion -- (%0: i32):|  %1 = \"llvm.mlir.constant\"() <{value = 5 : i32}> : () -> i32|  %2 = \
    \"llvm.xor\"(%0, %1) : (i32, i32) -> i32|  %3 = \"llvm.mlir.constant\"() <{value = 3 : i32}> : () -> i32|  %4 = \
    \"llvm.xor\"(%2, %3) : (i32, i32) -> i32|  \"llvm.return\"(%4) : (i32) -> () => (%0: i32):|  %1 = \
    \"llvm.mlir.constant\"() <{value = 5 : i32}> : () -> i32|  %2 = \"llvm.xor\"(%0, %1) : (i32, i32) -> i32|  %3 = \
    \"llvm.mlir.constant\"() <{value = 3 : i32}> : () -> i32|  %5 = \"llvm.mlir.constant\"() <{value = 6 : i32}> : () \
    -> i32|  %6 = \"llvm.xor\"(%0, %5) : (i32, i32) -> i32|  %4 = \"llvm.xor\"(%2, %3) : (i32, i32) -> i32|  \
    \"llvm.return\"(%6) : (i32) -> ()
an exclusion that is undone -- (%0: i32):|  %1 = \"llvm.mlir.constant\"() <{value = 5 : i32}> : () -> i32|  %2 = \
    \"llvm.xor\"(%0, %1) : (i32, i32) -> i32|  %3 = \"llvm.mlir.constant\"() <{value = 5 : i32}> : () -> i32|  %4 = \
    \"llvm.xor\"(%2, %3) : (i32, i32) -> i32|  \"llvm.return\"(%4) : (i32) -> () => (%0: i32):|  %1 = \
    \"llvm.mlir.constant\"() <{value = 5 : i32}> : () -> i32|  %2 = \"llvm.xor\"(%0, %1) : (i32, i32) -> i32|  %3 = \
    \"llvm.mlir.constant\"() <{value = 5 : i32}> : () -> i32|  %5 = \"llvm.mlir.constant\"() <{value = 0 : i32}> : () \
    -> i32|  %6 = \"llvm.xor\"(%0, %5) : (i32, i32) -> i32|  %4 = \"llvm.xor\"(%2, %3) : (i32, i32) -> i32|  \
    \"llvm.return\"(%6) : (i32) -> ()
a mask of more bits -- (%0: i32):|  %1 = \"llvm.mlir.constant\"() <{value = 12 : i32}> : () -> i32|  %2 = \
    \"llvm.or\"(%0, %1) : (i32, i32) -> i32|  %3 = \"llvm.mlir.constant\"() <{value = 6 : i32}> : () -> i32|  %4 = \
    \"llvm.and\"(%2, %3) : (i32, i32) -> i32|  \"llvm.return\"(%4) : (i32) -> () => (%0: i32):|  %1 = \
    \"llvm.mlir.constant\"() <{value = 12 : i32}> : () -> i32|  %2 = \"llvm.or\"(%0, %1) : (i32, i32) -> i32|  %3 = \
    \"llvm.mlir.constant\"() <{value = 6 : i32}> : () -> i32|  %4 = \"llvm.and\"(%2, %3) : (i32, i32) -> i32|  \
    \"llvm.return\"(%4) : (i32) -> ()
sums whose constants have other signs -- (%0: i8):|  %1 = \"llvm.mlir.constant\"() <{value = 3 : i8}> : () -> i8|  %2 \
    = \"llvm.add\"(%0, %1) <{overflowFlags = #llvm.overflow<nsw>}> : (i8, i8) -> i8|  %3 = \"llvm.mlir.constant\"() \
    <{value = -4 : i8}> : () -> i8|  %4 = \"llvm.add\"(%2, %3) <{overflowFlags = #llvm.overflow<nsw>}> : (i8, i8) -> \
    i8|  \"llvm.return\"(%4) : (i8) -> () => (%0: i8):|  %1 = \"llvm.mlir.constant\"() <{value = 3 : i8}> : () -> i8|  \
    %2 = \"llvm.add\"(%0, %1) <{overflowFlags = #llvm.overflow<nsw>}> : (i8, i8) -> i8|  %3 = \
    \"llvm.mlir.constant\"() <{value = -4 : i8}> : () -> i8|  %4 = \"llvm.add\"(%2, %3) <{overflowFlags = \
    #llvm.overflow<nsw>}> : (i8, i8) -> i8|  \"llvm.return\"(%4) : (i8) -> ()
sums past the greatest number -- (%0: i8):|  %1 = \"llvm.mlir.constant\"() <{value = 100 : i8}> : () -> i8|  %2 = \
    \"llvm.add\"(%0, %1) <{overflowFlags = #llvm.overflow<nsw>}> : (i8, i8) -> i8|  %3 = \"llvm.mlir.constant\"() \
    <{value = 100 : i8}> : () -> i8|  %4 = \"llvm.add\"(%2, %3) <{overflowFlags = #llvm.overflow<nsw>}> : (i8, i8) -> \
    i8|  \"llvm.return\"(%4) : (i8) -> () => (%0: i8):|  %1 = \"llvm.mlir.constant\"() <{value = 100 : i8}> : () -> \
    i8|  %2 = \"llvm.add\"(%0, %1) <{overflowFlags = #llvm.overflow<nsw>}> : (i8, i8) -> i8|  %3 = \
    \"llvm.mlir.constant\"() <{value = 100 : i8}> : () -> i8|  %4 = \"llvm.add\"(%2, %3) <{overflowFlags = \
    #llvm.overflow<nsw>}> : (i8, i8) -> i8|  \"llvm.return\"(%4) : (i8) -> ()
sums to the least number -- (%0: i8):|  %1 = \"llvm.mlir.constant\"() <{value = -100 : i8}> : () -> i8|  %2 = \
    \"llvm.add\"(%0, %1) <{overflowFlags = #llvm.overflow<nsw>}> : (i8, i8) -> i8|  %3 = \"llvm.mlir.constant\"() \
    <{value = -28 : i8}> : () -> i8|  %4 = \"llvm.add\"(%2, %3) <{overflowFlags = #llvm.overflow<nsw>}> : (i8, i8) -> \
    i8|  \"llvm.return\"(%4) : (i8) -> () => (%0: i8):|  %1 = \"llvm.mlir.constant\"() <{value = -100 : i8}> : () -> \
    i8|  %2 = \"llvm.add\"(%0, %1) <{overflowFlags = #llvm.overflow<nsw>}> : (i8, i8) -> i8|  %3 = \
    \"llvm.mlir.constant\"() <{value = -28 : i8}> : () -> i8|  %5 = \"llvm.mlir.constant\"() <{value = -128 : i8}> : \
    () -> i8|  %6 = \"llvm.add\"(%0, %5) <{overflowFlags = #llvm.overflow<nsw>}> : (i8, i8) -> i8|  %4 = \
    \"llvm.add\"(%2, %3) <{overflowFlags = #llvm.overflow<nsw>}> : (i8, i8) -> i8|  \"llvm.return\"(%6) : (i8) -> ()
sums past the least number -- (%0: i8):|  %1 = \"llvm.mlir.constant\"() <{value = -100 : i8}> : () -> i8|  %2 = \
    \"llvm.add\"(%0, %1) <{overflowFlags = #llvm.overflow<nsw>}> : (i8, i8) -> i8|  %3 = \"llvm.mlir.constant\"() \
    <{value = -29 : i8}> : () -> i8|  %4 = \"llvm.add\"(%2, %3) <{overflowFlags = #llvm.overflow<nsw>}> : (i8, i8) -> \
    i8|  \"llvm.return\"(%4) : (i8) -> () => (%0: i8):|  %1 = \"llvm.mlir.constant\"() <{value = -100 : i8}> : () -> \
    i8|  %2 = \"llvm.add\"(%0, %1) <{overflowFlags = #llvm.overflow<nsw>}> : (i8, i8) -> i8|  %3 = \
    \"llvm.mlir.constant\"() <{value = -29 : i8}> : () -> i8|  %4 = \"llvm.add\"(%2, %3) <{overflowFlags = \
    #llvm.overflow<nsw>}> : (i8, i8) -> i8|  \"llvm.return\"(%4) : (i8) -> ()
nothing has each sign -- (%0: i8):|  %1 = \"llvm.mlir.constant\"() <{value = -4 : i8}> : () -> i8|  %2 = \
    \"llvm.add\"(%0, %1) <{overflowFlags = #llvm.overflow<nsw>}> : (i8, i8) -> i8|  %3 = \"llvm.mlir.constant\"() \
    <{value = 0 : i8}> : () -> i8|  %4 = \"llvm.add\"(%2, %3) <{overflowFlags = #llvm.overflow<nsw>}> : (i8, i8) -> \
    i8|  \"llvm.return\"(%4) : (i8) -> () => (%0: i8):|  %1 = \"llvm.mlir.constant\"() <{value = -4 : i8}> : () -> \
    i8|  %2 = \"llvm.add\"(%0, %1) <{overflowFlags = #llvm.overflow<nsw>}> : (i8, i8) -> i8|  %3 = \
    \"llvm.mlir.constant\"() <{value = 0 : i8}> : () -> i8|  %5 = \"llvm.mlir.constant\"() <{value = -4 : i8}> : () \
    -> i8|  %6 = \"llvm.add\"(%0, %5) <{overflowFlags = #llvm.overflow<nsw>}> : (i8, i8) -> i8|  %4 = \
    \"llvm.add\"(%2, %3) <{overflowFlags = #llvm.overflow<nsw>}> : (i8, i8) -> i8|  \"llvm.return\"(%6) : (i8) -> ()
a sum that may wrap of one that may not -- (%0: i8):|  %1 = \"llvm.mlir.constant\"() <{value = 3 : i8}> : () -> i8|  \
    %2 = \"llvm.add\"(%0, %1) <{overflowFlags = #llvm.overflow<nsw>}> : (i8, i8) -> i8|  %3 = \
    \"llvm.mlir.constant\"() <{value = 4 : i8}> : () -> i8|  %4 = \"llvm.add\"(%2, %3) : (i8, i8) -> i8|  \
    \"llvm.return\"(%4) : (i8) -> () => (%0: i8):|  %1 = \"llvm.mlir.constant\"() <{value = 3 : i8}> : () -> i8|  %2 \
    = \"llvm.add\"(%0, %1) <{overflowFlags = #llvm.overflow<nsw>}> : (i8, i8) -> i8|  %3 = \"llvm.mlir.constant\"() \
    <{value = 4 : i8}> : () -> i8|  %4 = \"llvm.add\"(%2, %3) : (i8, i8) -> i8|  \"llvm.return\"(%4) : (i8) -> ()
a sum that may not wrap of one that may -- (%0: i8):|  %1 = \"llvm.mlir.constant\"() <{value = 3 : i8}> : () -> i8|  \
    %2 = \"llvm.add\"(%0, %1) : (i8, i8) -> i8|  %3 = \"llvm.mlir.constant\"() <{value = 4 : i8}> : () -> i8|  %4 = \
    \"llvm.add\"(%2, %3) <{overflowFlags = #llvm.overflow<nsw>}> : (i8, i8) -> i8|  \"llvm.return\"(%4) : (i8) -> () \
    => (%0: i8):|  %1 = \"llvm.mlir.constant\"() <{value = 3 : i8}> : () -> i8|  %2 = \"llvm.add\"(%0, %1) : (i8, i8) \
    -> i8|  %3 = \"llvm.mlir.constant\"() <{value = 4 : i8}> : () -> i8|  %4 = \"llvm.add\"(%2, %3) <{overflowFlags = \
    #llvm.overflow<nsw>}> : (i8, i8) -> i8|  \"llvm.return\"(%4) : (i8) -> ()
sums that promise the other thing -- (%0: i8):|  %1 = \"llvm.mlir.constant\"() <{value = 3 : i8}> : () -> i8|  %2 = \
    \"llvm.add\"(%0, %1) <{overflowFlags = #llvm.overflow<nuw>}> : (i8, i8) -> i8|  %3 = \"llvm.mlir.constant\"() \
    <{value = 4 : i8}> : () -> i8|  %4 = \"llvm.add\"(%2, %3) <{overflowFlags = #llvm.overflow<nsw>}> : (i8, i8) -> \
    i8|  \"llvm.return\"(%4) : (i8) -> () => (%0: i8):|  %1 = \"llvm.mlir.constant\"() <{value = 3 : i8}> : () -> i8|  \
    %2 = \"llvm.add\"(%0, %1) <{overflowFlags = #llvm.overflow<nuw>}> : (i8, i8) -> i8|  %3 = \
    \"llvm.mlir.constant\"() <{value = 4 : i8}> : () -> i8|  %4 = \"llvm.add\"(%2, %3) <{overflowFlags = \
    #llvm.overflow<nsw>}> : (i8, i8) -> i8|  \"llvm.return\"(%4) : (i8) -> ()
a sum that promises less -- (%0: i8):|  %1 = \"llvm.mlir.constant\"() <{value = 3 : i8}> : () -> i8|  %2 = \
    \"llvm.add\"(%0, %1) <{overflowFlags = #llvm.overflow<nsw, nuw>}> : (i8, i8) -> i8|  %3 = \
    \"llvm.mlir.constant\"() <{value = 4 : i8}> : () -> i8|  %4 = \"llvm.add\"(%2, %3) <{overflowFlags = \
    #llvm.overflow<nsw>}> : (i8, i8) -> i8|  \"llvm.return\"(%4) : (i8) -> () => (%0: i8):|  %1 = \
    \"llvm.mlir.constant\"() <{value = 3 : i8}> : () -> i8|  %2 = \"llvm.add\"(%0, %1) <{overflowFlags = \
    #llvm.overflow<nsw, nuw>}> : (i8, i8) -> i8|  %3 = \"llvm.mlir.constant\"() <{value = 4 : i8}> : () -> i8|  %4 = \
    \"llvm.add\"(%2, %3) <{overflowFlags = #llvm.overflow<nsw>}> : (i8, i8) -> i8|  \"llvm.return\"(%4) : (i8) -> ()
unsigned sums past the end -- (%0: i8):|  %1 = \"llvm.mlir.constant\"() <{value = -56 : i8}> : () -> i8|  %2 = \
    \"llvm.add\"(%0, %1) <{overflowFlags = #llvm.overflow<nuw>}> : (i8, i8) -> i8|  %3 = \"llvm.mlir.constant\"() \
    <{value = 100 : i8}> : () -> i8|  %4 = \"llvm.add\"(%2, %3) <{overflowFlags = #llvm.overflow<nuw>}> : (i8, i8) -> \
    i8|  \"llvm.return\"(%4) : (i8) -> () => (%0: i8):|  %1 = \"llvm.mlir.constant\"() <{value = -56 : i8}> : () -> \
    i8|  %2 = \"llvm.add\"(%0, %1) <{overflowFlags = #llvm.overflow<nuw>}> : (i8, i8) -> i8|  %3 = \
    \"llvm.mlir.constant\"() <{value = 100 : i8}> : () -> i8|  %4 = \"llvm.add\"(%2, %3) <{overflowFlags = \
    #llvm.overflow<nuw>}> : (i8, i8) -> i8|  \"llvm.return\"(%4) : (i8) -> ()
sums of which one promise fails -- (%0: i8):|  %1 = \"llvm.mlir.constant\"() <{value = 100 : i8}> : () -> i8|  %2 = \
    \"llvm.add\"(%0, %1) <{overflowFlags = #llvm.overflow<nsw, nuw>}> : (i8, i8) -> i8|  %3 = \
    \"llvm.mlir.constant\"() <{value = 100 : i8}> : () -> i8|  %4 = \"llvm.add\"(%2, %3) <{overflowFlags = \
    #llvm.overflow<nsw, nuw>}> : (i8, i8) -> i8|  \"llvm.return\"(%4) : (i8) -> () => (%0: i8):|  %1 = \
    \"llvm.mlir.constant\"() <{value = 100 : i8}> : () -> i8|  %2 = \"llvm.add\"(%0, %1) <{overflowFlags = \
    #llvm.overflow<nsw, nuw>}> : (i8, i8) -> i8|  %3 = \"llvm.mlir.constant\"() <{value = 100 : i8}> : () -> i8|  %4 \
    = \"llvm.add\"(%2, %3) <{overflowFlags = #llvm.overflow<nsw, nuw>}> : (i8, i8) -> i8|  \"llvm.return\"(%4) : (i8) \
    -> ()";

#[test]
fn rules_leave(rt: HostRuntime) {
    for case in ROWS.lines() {
        let mut ctx = Context::new(rt.alloc());
        expect_combined(&rt, rt.alloc(), case, &mut ctx);
    }
}

#[test]
fn rules_leave_what_instcombine_does(rt: HostRuntime) {
    for case in rules::ROWS.lines() {
        let mut ctx = Context::new(rt.alloc());
        expect_combined(&rt, rt.alloc(), case, &mut ctx);
    }
}

#[test]
fn rules_leave_of_pairs_what_instcombine_does(rt: HostRuntime) {
    for case in pairs::ROWS.lines() {
        let mut ctx = Context::new(rt.alloc());
        expect_combined(&rt, rt.alloc(), case, &mut ctx);
    }
}
