//! Bodies, and their labels and statements, each in brackets. `|` stands for the end of a line.
use crate::lines::{in_one_line, with_lines};
use pliron_text_llvm_syntax::{LineText, split_lines};
use std::alloc::Global;
use std::process::Abort;

static BODIES: &str = "\
nothing --  =>
blanks and a comment --  ; c| =>
a statement -- ret void => [ret void]
a statement a line --   %x = add i32 1, 2|  store i32 %x, ptr @g|  ret i32 %x| => [%x = add i32 1, 2][store i32 %x, \
    ptr @g][ret i32 %x]
labels -- a:|  br label %\"b c\"|\"b c\":|  ret void => [a:][br label %\"b c\"][\"b c\":][ret void]
a label and a statement on one line -- a: ret void b: unreachable => [a:][ret void][b:][unreachable]
two names on one line -- %x = add i32 1, 2 %y = add i32 %x, %x ret i32 %y => [%x = add i32 1, 2][%y = add i32 %x, \
    %x ret i32 %y]
an opcode below its name -- %x =|  add i32 1, 2|  ret i32 %x => [%x =|  add i32 1, 2][ret i32 %x]
an invoke over two lines -- %x = invoke i32 @f()|    to label %n unwind label %u|n: => [%x = invoke i32 @f()|    to \
    label %n unwind label %u][n:]
clauses of a pad -- %l = landingpad { ptr, i32 }|    cleanup|    catch ptr null|  unreachable => [%l = landingpad { \
    ptr, i32 }|    cleanup|    catch ptr null][unreachable]
cases over lines -- switch i32 %x, label %d [|  i32 0, label %a|  i32 1, label %b|]|d: => [switch i32 %x, label %d \
    [|  i32 0, label %a|  i32 1, label %b|]][d:]
records -- #dbg_value(i32 1, !5, !DIExpression(), !6)|  ret void, !dbg !6 => [#dbg_value(i32 1, !5, !DIExpression(), \
    !6)][ret void, !dbg !6]
lines in metadata are no labels -- ret void, !dbg !DILocation(line: 3) => [ret void, !dbg !DILocation(line: 3)]
a comment behind a statement -- ret void ; add| => [ret void]
a comment inside a statement -- ret ; c|  i32 1| => [ret ; c|  i32 1]
a type with the name of a value -- %a = load %a, ptr %p|  ret %a %a => [%a = load %a, ptr %p][ret %a %a]
an unknown word -- %x = frobnicate i32 1|  ret void => [%x = frobnicate i32 1][ret void]
orders of uses -- ret void|  uselistorder i32 %x, { 1, 0 } => [ret void][uselistorder i32 %x, { 1, 0 }]";

// The labels and statements of the text.
fn lines_of(rt: &impl Abort, alloc: Global, text: &[u8]) -> String {
    let mut out = String::new(alloc);
    let mut open = Vec::new(alloc);
    let mut lines: Vec<LineText> = Vec::new(alloc);
    split_lines(text, 0, &mut open, &mut lines)
        .ok()
        .expect(rt, "lines");
    for line in &lines {
        let span = line.span();
        let bytes = text.get(span.start..span.end).unwrap_or(b"?");
        let line = in_one_line(alloc, bytes).expect(rt, "memory");
        out.push('[').expect(rt, "memory");
        out.push_str(line.as_str()).expect(rt, "memory");
        out.push(']').expect(rt, "memory");
    }
    out
}

#[test]
fn splits_bodies(rt: HostRuntime) {
    for case in BODIES.lines() {
        let (name, row) = case.split_once(" -- ").expect(&rt, "a name");
        let (text, wanted) = row.split_once(" =>").expect(&rt, "a case");
        let lines = with_lines(rt.alloc(), text).expect(&rt, "memory");
        let found = lines_of(&rt, rt.alloc(), lines.as_str().as_bytes());
        assert!(rt; found.as_str() == wanted.trim_start(), "{name}: {found}");
    }
}
