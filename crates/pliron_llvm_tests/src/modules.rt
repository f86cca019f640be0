//! Modules as they are read: their parts with their bytes, and where and why one is refused. `|` stands for the end of a line.
use crate::lines::{at_place, in_one_line, with_lines};
use pliron_text_llvm_modules::{
    LlvmModuleFault, ModuleFunction, ReadFunction, ReadPart, print_module, read_module,
};
use pliron_text_llvm_syntax::{ByteSpan, LlvmFault};
use pliron_text_mlir_syntax::position_of;
use std::alloc::Global;
use std::process::Abort;

/// Modules, and their parts: raw, read with so many blocks, edges and phis, or kept at this place for this reason.
static READ: &str = "\
an empty text -- =>
raw text alone -- @g = global i32 1|declare void @h()| => raw 0..36
a function alone -- define void @f() {|  ret void|} => read 0..31: 1 blocks, 0 edges, 0 phis
functions between raw parts -- @g = global i32 1|define void @f() {|  ret void|}|define i32 @h(i1 %c) {|a:|  br i1 %c, label %b, label %d|b:|  br label %d|d:|  %y = phi i32 [ 1, %a ], [ 2, %b ]|  ret i32 %y|}|!0 = !{}| => raw 0..18; read 18..49: 1 blocks, 0 edges, 0 phis; raw 49..50; read 50..177: 3 blocks, 3 edges, 1 phis; raw 177..187
a function that is kept -- define void @f() {|  %x = frobnicate i32 1, 2|  ret void|} define void @g() {|  ret void|} => kept 0..58: 2:3 an unknown word; raw 58..59; read 59..90: 1 blocks, 0 edges, 0 phis
a function with a byte that stands for a hole -- define void @f() {|  ; \x01|  ret void|} => kept 0..37: 1:1 a byte that stands for a hole in a form
a function that is kept for a phi -- define i32 @f(i1 %c) {|a:|  br i1 %c, label %d, label %d|d:|  %y = phi i32 [ 1, %a ], [ 01, %a ]|  ret i32 %y|} => kept 0..111: 5:29 two texts of a constant for one block";

/// Modules, and the place and what was expected there.
static REFUSED: &str = "\
a block that isn't defined -- define void @f() {|  ret void|}|define void @g() {|  br label %b|} => 5:12 a block of this function
an edge to the first block -- declare void @g()|define void @f() {|a:|  br label %a|} => 4:12 no edge to the first block
an open bracket -- @g = global [2 x i32| => broken";

// What the function was read as.
fn counts_of(rt: &impl Abort, alloc: Global, read: &ReadFunction) -> String {
    let blocks = read.reading.body.blocks.len();
    let edges = read.edges.edges.len();
    let phis = read.edges.phis.len();
    format!(in alloc; "{blocks} blocks, {edges} edges, {phis} phis").expect(rt, "memory")
}

// Where a part is.
fn span_of(rt: &impl Abort, alloc: Global, span: ByteSpan) -> String {
    let ByteSpan { start, end } = span;
    format!(in alloc; "{start}..{end}").expect(rt, "memory")
}

// What the function becomes.
fn function_of(
    rt: &impl Abort,
    alloc: Global,
    text: &[u8],
    span: &str,
    read: &ModuleFunction,
) -> String {
    match read {
        ModuleFunction::Read(function) => {
            let counts = counts_of(rt, alloc, function);
            format!(in alloc; " read {span}: {counts}").expect(rt, "memory")
        }
        ModuleFunction::Kept(at, why) => {
            let place = position_of(text, *at);
            let (line, column) = (place.line, place.column);
            format!(in alloc; " kept {span}: {line}:{column} {why}").expect(rt, "memory")
        }
    }
}

// The part with what it was read as.
fn part_of(rt: &impl Abort, alloc: Global, text: &[u8], read: &ReadPart) -> String {
    match read {
        ReadPart::Raw(span) => {
            let span = span_of(rt, alloc, *span);
            format!(in alloc; " raw {span}").expect(rt, "memory")
        }
        ReadPart::Function(function, read) => {
            let span = span_of(rt, alloc, function.span);
            function_of(rt, alloc, text, span.as_str(), read)
        }
    }
}

// The parts of the module.
fn parts_of(rt: &impl Abort, alloc: Global, text: &[u8], parts: &[ReadPart]) -> String {
    let mut out = String::new(alloc);
    for (i, part) in parts.iter().enumerate() {
        let mark = if i == 0 { "" } else { ";" };
        out.push_str(mark).expect(rt, "memory");
        out.push_str(part_of(rt, alloc, text, part).as_str())
            .expect(rt, "memory");
    }
    out
}

// What the module is read as.
fn module_of(rt: &impl Abort, alloc: Global, text: &[u8]) -> String {
    match read_module(alloc, text) {
        Ok(parts) => parts_of(rt, alloc, text, &parts),
        Err(LlvmModuleFault::Refused(at, why)) => {
            let why = format!(in alloc; "{why}").expect(rt, "memory");
            at_place(rt, alloc, text, at, why.as_str())
        }
        Err(LlvmModuleFault::Broken(LlvmFault::Expected(_, _))) => {
            format!(in alloc; " broken").expect(rt, "memory")
        }
        Err(LlvmModuleFault::Broken(LlvmFault::NoMemory)) => {
            format!(in alloc; " no memory").expect(rt, "memory")
        }
    }
}

fn expect_module(rt: &impl Abort, alloc: Global, case: &str) {
    let (name, row) = case.split_once(" -- ").expect(rt, "a name");
    let (text, wanted) = row.split_once("=>").expect(rt, "a case");
    let lines = with_lines(alloc, text.trim_end_matches(' ')).expect(rt, "memory");
    let found = module_of(rt, alloc, lines.as_str().as_bytes());
    assert!(rt; found.as_str() == wanted, "{name}: {found}");
}

#[test]
fn reads_modules(rt: HostRuntime) {
    for case in READ.lines() {
        expect_module(&rt, rt.alloc(), case);
    }
}

#[test]
fn refuses_modules(rt: HostRuntime) {
    for case in REFUSED.lines() {
        expect_module(&rt, rt.alloc(), case);
    }
}

/// Modules, and how they are printed with `F` and `G` for the first two functions that are read.
static PRINTED: &str = "\
nothing -- =>
raw text -- @g = global i32 1| => @g = global i32 1|
functions between raw text -- ; a|define void @f() {|  ret void|} ; b|define void @g() {|  ret void|}|; c => ; a|F ; b|G|; c
a function that is kept has no text -- define void @f() {|  frobnicate|  ret void|}|define void @g() {|  ret void|} => define void @f() {|  frobnicate|  ret void|}|F
a third function has none -- define void @f() {|  ret void|},define void @g() {|  ret void|},define void @h() {|  ret void|}; => F,G,;";

// The module, printed with these texts.
fn printed_of(rt: &impl Abort, alloc: Global, text: &[u8], texts: &[&[u8]]) -> String {
    match read_module(alloc, text) {
        Ok(parts) => {
            let printed = print_module(alloc, text, &parts, texts).expect(rt, "memory");
            in_one_line(alloc, &printed).expect(rt, "memory")
        }
        Err(_) => format!(in alloc; "not read").expect(rt, "memory"),
    }
}

fn expect_printed(rt: &impl Abort, alloc: Global, case: &str) {
    let (name, row) = case.split_once(" -- ").expect(rt, "a name");
    let (text, wanted) = row.split_once("=>").expect(rt, "a case");
    let lines = with_lines(alloc, text.trim_end_matches(' ')).expect(rt, "memory");
    let texts: [&[u8]; 2] = [b"F", b"G"];
    let found = printed_of(rt, alloc, lines.as_str().as_bytes(), &texts);
    assert!(rt;
        found.as_str() == wanted.trim_start_matches(' '),
        "{name}: {found}"
    );
}

#[test]
fn prints_modules(rt: HostRuntime) {
    for case in PRINTED.lines() {
        expect_printed(&rt, rt.alloc(), case);
    }
}
