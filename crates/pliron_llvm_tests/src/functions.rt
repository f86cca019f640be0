//! Functions as they are read: which definition each use names, and where and why one is refused or kept. `|` stands for
//! the end of a line.
use crate::lines::{at_place, with_lines};
use pliron_text_llvm_functions::{FunctionFault, FunctionForm, FunctionReading, read_function};
use pliron_text_llvm_names::{DefinitionKind, LocalDefinition};
use pliron_text_llvm_syntax::function_at;
use std::alloc::Global;
use std::process::Abort;

/// Functions that LLVM takes, and what their operands and successors name, in the order of the text: `a1` is the second parameter, `b1`
/// the second block, and `r1` the second value that a statement gives. The answers are those of LLVM's pass `metarenamer`.
static READ: &str = "\
parameters and results by names and numbers -- define i32 @f(i32 %x, i32) {|  %2 = add i32 %x, %0|  ret i32 %2|} => a0 a1 r0
a number of a parameter goes on -- define i32 @f(i32 %7, i32) {|  %10 = add i32 %7, %8|  ret i32 %10|} => a0 a1 r0
the first block takes a number -- define i32 @f(i1 %c) {|  br i1 %c, label %1, label %2|1:|  br label %2|2:|  %3 = phi i32 [ 4, %0 ], [ 5, %1 ]|  ret i32 %3|} => a0 b1 b2 b2 b0 b1 r0
a block behind a terminator takes a number -- define void @f(i1 %c) {|a:|  br i1 %c, label %0, label %b|  br label %b|b:|  ret void|} => a0 b1 b2 b2
a call that gives nothing takes no number -- define i32 @f() {|  call void @h()|  %1 = call i32 @g()|  call i32 @g()|  %3 = add i32 %1, %2|  ret i32 %3|} => r0 r1 r2
names in quotes -- define i32 @f(i32 %\"a b\", i32 %\"5\", i32 %\"x\") {|  %1 = add i32 %\"a b\", %\"5\"|  %2 = add i32 %1, %x|  ret i32 %2|} => a0 a1 r0 a2 r1
uses before definitions -- define i32 @f() {|a:|  br label %d|b:|  ret i32 %x|d:|  %x = add i32 1, 1|  br label %b|e:|  %z = add i32 %y, 1|  %y = add i32 1, 2|  br label %d|} => b2 r0 b1 r2 b2
a loop -- define i32 @f(i32 %n) {|e:|  br label %h|h:|  %i = phi i32 [ 0, %e ], [ %j, %l ]|  %c = icmp slt i32 %i, %n|  br i1 %c, label %l, label %x|l:|  %j = add nsw i32 %i, 1|  br label %h|x:|  ret i32 %i|} => b1 b0 r2 b2 r0 a0 r1 b2 b3 r0 b1 r0
cases of a switch -- define void @f(i32 %x) {|  switch i32 %x, label %d [ i32 0, label %a i32 1, label %d ]|a:|  br label %d|d:|  ret void|} => a0 b2 b1 b2 b2
zeros before a number -- define i32 @f(i32 %007) {|  %\"9\" = add i32 %7, 1|  %9 = add i32 %\"9\", 2|  ret i32 %09|} => a0 r0 r1
types of parameters -- define ptr @f(ptr addrspace(1) %p, { i32, ptr } %q, ptr byval([4 x i32]) %r, [2 x i32], ptr align 8, ...) {|  store ptr %r, ptr addrspace(1) %p|  %x = extractvalue { i32, ptr } %q, 1|  %3 = freeze ptr %1|  ret ptr %3|} => a2 a0 a1 a4 r1
a block and a value in one order of numbers -- define i32 @f() {|  %1 = add i32 1, 2|  br label %2|2:|  %3 = add i32 %1, 3|  br label %4|4:|  ret i32 %3|} => b1 r0 b2 r1";

/// Functions, and the place and what was expected there. The places are those of `llvm-as`, but for a name that is taken
/// by a parameter or a block.
static REFUSED: &str = "\
a value that isn't defined -- define void @f() {|  %x = add i32 1, %y|  ret void|} => 2:19 a value of this function
an argument that isn't defined -- define void @f() {|  call void @g(i32 %x)|  ret void|} => 2:20 a value of this function
a block that isn't defined -- define void @f() {|  br label %b|} => 2:12 a block of this function
a case to a block that isn't defined -- define void @f() {|  switch i32 1, label %a [ i32 2, label %b ]|a:|  ret void|} => 2:41 a block of this function
a parameter with the name of another -- define void @f(i32 %a, i32 %a) {|  ret void|} => 1:28 the name of a value that its function doesn't define before
a result with the name of a parameter -- define void @f(i32 %x) {|  %x = add i32 1, 2|  ret void|} => 2:3 the name of a value that its function doesn't define before
a name in quotes and without -- define void @f() {|  %\"x\" = add i32 1, 2|  %x = add i32 1, 2|  ret void|} => 3:3 the name of a value that its function doesn't define before
two blocks of one name -- define void @f() {|a:|  br label %b|b:|  ret void|b:|  ret void|} => 6:1 the name of a block that its function doesn't define before";

/// Functions that are kept as they are written, and the place and the reason.
static KEPT: &str = "\
an unknown word -- define void @f() {|  %x = frobnicate i32 1, 2|  ret void|} => 2:3 kept: an unknown word
an escape in a name -- define void @f(i32 %\"\\41\") {|  ret void|} => 1:20 kept: an escape in a name
a number of 33 bits -- define void @f(i32 %4294967296) {|  ret void|} => 1:20 kept: a number of more than 32 bits";

// A letter for what is defined.
fn letter_of(what: DefinitionKind) -> char {
    match what {
        DefinitionKind::Argument(_) => 'a',
        DefinitionKind::Block(_) => 'b',
        DefinitionKind::Result(_) => 'r',
    }
}

// How many of the definitions before this one are of its kind.
fn number_of(definitions: &[LocalDefinition], number: usize, letter: char) -> usize {
    let mut count: usize = 0;
    for definition in definitions.iter().take(number) {
        if letter_of(definition.what) == letter {
            count = count.saturating_add(1);
        }
    }
    count
}

// What the holes name.
fn uses_of(rt: &impl Abort, alloc: Global, reading: &FunctionReading) -> String {
    let mut out = String::new(alloc);
    for target in &reading.targets {
        let Some(number) = *target else {
            continue;
        };
        let found = reading.definitions.get(number).expect(rt, "a definition");
        let letter = letter_of(found.what);
        let count = number_of(&reading.definitions, number, letter);
        let named = format!(in alloc; " {letter}{count}").expect(rt, "memory");
        out.push_str(named.as_str()).expect(rt, "memory");
    }
    out
}

// What the function is read as.
fn form_of(rt: &impl Abort, alloc: Global, text: &[u8]) -> String {
    assert!(rt; !text.is_empty());
    let function = function_at(text, 0, &mut Vec::new(alloc))
        .ok()
        .expect(rt, "a function");
    match read_function(alloc, text, &function) {
        Ok(FunctionForm::Read(reading)) => uses_of(rt, alloc, &reading),
        Ok(FunctionForm::Kept(at, why)) => {
            let why = format!(in alloc; "kept: {why}").expect(rt, "memory");
            at_place(rt, alloc, text, at, why.as_str())
        }
        Err(FunctionFault::Refused(at, why)) => {
            let why = format!(in alloc; "{why}").expect(rt, "memory");
            at_place(rt, alloc, text, at, why.as_str())
        }
        Err(FunctionFault::Broken(_)) => format!(in alloc; " broken").expect(rt, "memory"),
    }
}

fn expect_reading(rt: &impl Abort, alloc: Global, case: &str) {
    let (name, row) = case.split_once(" -- ").expect(rt, "a name");
    let (text, wanted) = row.split_once(" =>").expect(rt, "a case");
    let lines = with_lines(alloc, text).expect(rt, "memory");
    let found = form_of(rt, alloc, lines.as_str().as_bytes());
    assert!(rt; found.as_str() == wanted, "{name}: {found}");
}

#[test]
fn resolves_names(rt: HostRuntime) {
    for case in READ.lines() {
        expect_reading(&rt, rt.alloc(), case);
    }
}

#[test]
fn refuses_functions(rt: HostRuntime) {
    for case in REFUSED.lines() {
        expect_reading(&rt, rt.alloc(), case);
    }
}

#[test]
fn keeps_functions(rt: HostRuntime) {
    for case in KEPT.lines() {
        expect_reading(&rt, rt.alloc(), case);
    }
}
