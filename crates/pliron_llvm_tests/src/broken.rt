//! Broken modules, with line, column and what was expected there. `|` stands for the end of a line.
use crate::lines::with_lines;
use pliron_text_llvm_syntax::{LlvmFault, split_text};
use pliron_text_mlir_syntax::position_of;
use std::alloc::Global;
use std::process::Abort;

// The place where the text is broken, and what was expected there.
fn fault_of(rt: &impl Abort, alloc: Global, text: &str) -> String {
    match split_text(alloc, text.as_bytes()) {
        Err(LlvmFault::Expected(at, expected)) => {
            let place = position_of(text.as_bytes(), at);
            let (line, column) = (place.line, place.column);
            format!(in alloc; "{line}:{column} {expected}").expect(rt, "memory")
        }
        Err(LlvmFault::NoMemory) => format!(in alloc; "memory").expect(rt, "memory"),
        Ok(_) => format!(in alloc; "read").expect(rt, "memory"),
    }
}

fn expect_broken(rt: &impl Abort, alloc: Global, case: &str) {
    let (name, row) = case.split_once(" -- ").expect(rt, "a name");
    let (text, wanted) = row.split_once(" => ").expect(rt, "a case");
    let lines = with_lines(alloc, text).expect(rt, "memory");
    let found = fault_of(rt, alloc, lines.as_str());
    assert!(rt; found.as_str() == wanted, "{name}: {found}");
}

/// Names and broken modules, and line, column and what was expected there.
static BROKEN: &str = "\
a body that does not end -- define void @f() {|  ret void => 2:11 `}`
a bracket that closes another -- define void @f() {|  ret void)|} => 2:11 `}`
an argument list that does not end -- define void @f() {|  call void @g(i32 1|  ret void|} => 4:1 `)`
a parameter list that does not end -- define void @f( {|  ret void|} => 3:2 `)`
cases that do not end -- define void @f(i32 %x) {|  switch i32 %x, label %a [ i32 0, label %a|a:|  ret void|} => 5:1 `]`
a result type that does not end -- define { i32, i32 @f() {|  ret void|} => 3:2 `}`
a vector that does not end -- define void @f() {|  %x = add <2 x i32> <i32 1, i32 2), zeroinitializer|  ret void|} => 2:35 `>`
a name that does not end -- define void @\"f () {|  ret void|} => 1:13 a word of LLVM IR
a string that does not end -- define void @f() {|  call void asm \"nop, \"\"()|  ret void|} => 2:24 a string that ends
a comment that does not end -- define void @f() {|  /* no end|  ret void|} => 2:3 a word of LLVM IR
a byte that no word has -- define void @f() {|  %x = add i32 1 ~ 2|  ret void|} => 2:18 a word of LLVM IR
a value without a name -- define void @f() {|  %x = add i32 %, 1|  ret void|} => 2:16 a word of LLVM IR
a function without @ -- define void f() {|  ret void|} => 3:2 `{` and the body of the function
no parameters -- define void @f {|  ret void|} => 1:16 `(`
no body -- define void @f()| => 2:1 `{` and the body of the function
define at the end -- @g = global i32 1|define| => 3:1 `{` and the body of the function
a name at the end -- define void @f => 1:15 `(`
a second function in a header -- define void f define void @g() {|  ret void|} => 1:15 `{` and the body of the function
a second function before the body -- define void @f() define void @g() {|  ret void|} => 1:18 `{` and the body of the function
a type behind prefix is no body -- define void @f() prefix { i32 } { i32 1 }| => 2:1 `{` and the body of the function
a bracket that closes nothing -- @g = global i32 1)| => 1:18 a bracket that this one closes
a bracket that closes nothing behind a function -- define void @f() {|  ret void|}|} => 4:1 a bracket that this one closes
a raw bracket that does not end -- !0 = !{i32 1| => 2:1 `}`
a raw bracket closed by another -- !0 = !{i32 1|@g = global [2 x i8] c\"ab\") => 2:27 `}`
a raw string that does not end -- source_filename = \"a| => 1:19 a string that ends
a string behind ! that does not end -- !0 = !{!\"a}| => 1:9 a string that ends
a string behind c that does not end -- @g = global [1 x i8] c\"a| => 1:23 a string that ends
a comdat without a name -- $ = comdat any => 1:1 a word of LLVM IR
a group without a number -- attributes # = { nounwind } => 1:12 a word of LLVM IR
a slash alone -- / x => 1:1 a word of LLVM IR
a comment of three bytes -- /*/ => 1:1 a word of LLVM IR
a plus without digits -- @g = global double + 1 => 1:20 a word of LLVM IR";

#[test]
fn reports_where_modules_are_broken(rt: HostRuntime) {
    for case in BROKEN.lines() {
        expect_broken(&rt, rt.alloc(), case);
    }
}
