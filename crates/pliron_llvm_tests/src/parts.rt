//! Parts of modules. `|` stands for the end of a line.
use crate::lines::{in_one_line, with_lines};
use pliron_text_llvm_syntax::{ByteSpan, ModulePart, join_parts, split_text};
use std::alloc::Global;
use std::process::Abort;

/// Modules, and their parts, each in brackets: raw text, or the name, the parameters and the body of a function.
static PARTS: &str = "\
an empty text --  =>
raw text alone -- @g = global i32 1| => [@g = global i32 1|]
a function alone -- define void @f() { ret void } => [@f () { ret void }]
text around functions -- ; a|define void @f() { ret void }|define i32 @g(i32 %x, ...) #0 {|  ret i32 %x|}|; b => \
    [; a|][@f () { ret void }][|][@g (i32 %x, ...) {|  ret i32 %x|}][|; b]
a declaration is raw -- declare void @f() => [declare void @f()]
define in a string -- source_filename = \"define void @f() {\" => [source_filename = \"define void @f() {\"]
define in a comment -- ; define|/* define */ => [; define|/* define */]
define as a name -- @define = global i32 1 => [@define = global i32 1]
define as a label -- define: => [define:]
define in metadata -- !0 = !{!\"define\", define} => [!0 = !{!\"define\", define}]
a name in quotes -- define void @\"a {\"() { ret void } => [@\"a {\" () { ret void }]
a result type with brackets -- define { i32, [2 x i8] } @f() { ret void } => [@f () { ret void }]
blanks and comments in a header -- define void @f ; c|  /* ( */ (i32) ; d|  { ret void } => [@f (i32) { ret void }]
attributes with brackets -- define void @f() align(8) \"a\"=\"{\" { ret void } => [@f () { ret void }]
a personality -- define void @f() personality ptr @p { ret void } => [@f () { ret void }]
a personality in another address space -- define void @f() personality ptr addrspace(1) null { ret void } => \
    [@f () { ret void }]
a personality of a function type -- define void @f() personality void (i32)* @p { ret void } => [@f () { ret void }]
a personality by an expression -- define void @f() personality ptr getelementptr ({ i8 }, ptr @p, i32 0) { ret \
    void } => [@f () { ret void }]
a number as prefix -- define void @f() prefix i32 5 { ret void } => [@f () { ret void }]
a struct as prefix -- define void @f() prefix { i32 } { i32 1 } { ret void } => [@f () { ret void }]
a packed struct as prologue -- define void @f() prologue <{ i8 }> <{ i8 1 }> { ret void } => [@f () { ret void }]
zeros as prefix -- define void @f() prefix { i32 } zeroinitializer { ret void } => [@f () { ret void }]
a named struct as prefix -- define void @f() prefix %T { i32 1 } { ret void } => [@f () { ret void }]
bytes as prefix -- define void @f() prefix [1 x i8] c\"{\" { ret void } => [@f () { ret void }]
prefix and personality -- define void @f() prefix { i32 } { i32 1 } personality ptr @p { ret void } => \
    [@f () { ret void }]
two functions on a line -- define void @f() { ret void } define void @g() { ret void } => \
    [@f () { ret void }][ ][@g () { ret void }]
no blank between functions -- define void @f() { ret void }define void @g() { ret void } => \
    [@f () { ret void }][@g () { ret void }]";

fn push_span(rt: &impl Abort, alloc: Global, text: &str, span: ByteSpan, out: &mut String) {
    let bytes = text.as_bytes().get(span.start..span.end).unwrap_or(b"?");
    let line = in_one_line(alloc, bytes).expect(rt, "memory");
    out.push_str(line.as_str()).expect(rt, "memory");
}

fn push_part(rt: &impl Abort, alloc: Global, text: &str, part: ModulePart, out: &mut String) {
    out.push_str("[").expect(rt, "memory");
    match part {
        ModulePart::Raw(span) => push_span(rt, alloc, text, span, out),
        ModulePart::Function(function) => {
            push_span(rt, alloc, text, function.name, out);
            out.push_str(" ").expect(rt, "memory");
            push_span(rt, alloc, text, function.parameters, out);
            out.push_str(" ").expect(rt, "memory");
            push_span(rt, alloc, text, function.body, out);
        }
    }
    out.push_str("]").expect(rt, "memory");
}

fn push_parts(rt: &impl Abort, alloc: Global, text: &str, parts: &[ModulePart], out: &mut String) {
    for part in parts {
        push_part(rt, alloc, text, *part, out);
    }
}

// The parts of the text, which joined are the text.
fn parts_of(rt: &impl Abort, alloc: Global, text: &str) -> String {
    let mut out = String::new(alloc);
    let bytes = text.as_bytes();
    if let Ok(parts) = split_text(alloc, bytes) {
        let joined = join_parts(alloc, bytes, &parts).expect(rt, "memory");
        assert!(rt; joined.as_slice() == bytes, "{text}");
        push_parts(rt, alloc, text, &parts, &mut out);
    }
    out
}

#[test]
fn splits_modules(rt: HostRuntime) {
    for case in PARTS.lines() {
        let (name, row) = case.split_once(" -- ").expect(&rt, "a name");
        let (text, wanted) = row.split_once(" =>").expect(&rt, "a case");
        let lines = with_lines(rt.alloc(), text).expect(&rt, "memory");
        let found = parts_of(&rt, rt.alloc(), lines.as_str());
        assert!(rt; found.as_str() == wanted.trim_start(), "{name}: {found}");
    }
}
