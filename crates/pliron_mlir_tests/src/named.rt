//! Classes of operations of a text, with the names of the functions that they call or are.
use crate::lines::with_lines;
use pliron_core::{AttrObj, Context, Head, Operation, Ptr};
use pliron_dialect_calls::InliningDialect;
use pliron_dialect_mlir::{AnyMeaning, Class, Mlir, class_of_head, named_head, plain_head};
use pliron_text_mlir_reader::{ParsedModule, Sheet, parse_text};
use std::alloc::Global;
use std::process::Abort;

// A line has a name, the operations of a module, and their classes and names.
static ROWS: &str = "\
a function -- \"llvm.func\"() <{sym_name = \"f\"}> ({}) : () -> () => Function f
a function of func -- \"func.func\"() <{sym_name = \"f\"}> ({}) : () -> () => Function f
a name in the dictionary -- \"llvm.func\"() ({}) {sym_name = \"f\"} : () -> () => Function f
a name with its own quotes -- \"llvm.func\"() <{\"sym_name\" = \"f\"}> ({}) : () -> () => Function f
a name with a quote -- \"llvm.func\"() <{sym_name = \"a\\\"b\"}> ({}) : () -> () => Root
a function without a name -- \"llvm.func\"() ({}) : () -> () => Root
a name inside -- \"llvm.func\"() <{a = 1}> ({|\"t.u\"() <{sym_name = \"g\"}> : () -> ()|}) : () -> () => Root Local
a name outside -- \"llvm.func\"() <{sym_name = \"f\"}> ({|\"t.u\"() <{sym_name = \"g\"}> : () -> ()|}) : () -> () => \
    Function f Local
a call -- \"llvm.call\"() <{callee = @g}> : () -> () => Call g
a call of func -- \"func.call\"() <{callee = @g}> : () -> () => Call g
a callee in the dictionary -- \"llvm.call\"() {callee = @g} : () -> () => Call g
a callee in quotes -- \"llvm.call\"() <{callee = @\"g.h\"}> : () -> () => Call g.h
a callee inside another symbol -- \"llvm.call\"() <{callee = @m::@g}> : () -> () => Effect
a callee in quotes inside another -- \"llvm.call\"() <{callee = @\"m\"::@\"g\"}> : () -> () => Effect
a callee that is no symbol -- \"llvm.call\"() <{callee = \"g\"}> : () -> () => Effect
a call of a value -- \"llvm.call\"() <{a = 1}> : () -> () => Effect
a call that visits a region -- \"llvm.call\"() <{callee = @g}> ({}) : () -> () => Regions
what calls nothing -- \"llvm.fence\"() <{callee = @g}> : () -> () => Effect
what belongs to its function -- \"llvm.inline_asm\"() <{callee = @g}> : () -> () => Local
what isn't known -- \"t.u\"() <{callee = @g, sym_name = \"f\"}> : () -> () => Local
";

// The name whose number is the first attribute.
fn name_of<'s>(head: &Head, sheet: &'s Sheet) -> Option<&'s [u8]> {
    if head.attrs.is_empty() {
        return None;
    }
    match head.attrs.get(0) {
        AttrObj::Int(number) => Some(sheet.text(usize::try_from(*number).ok()?)),
        AttrObj::Text(_) => None,
    }
}

fn write_head(head: &Head, sheet: &Sheet, line: &mut String) -> Option<()> {
    let class = class_of_head(head)?;
    if !line.is_empty() {
        line.push_str(" ").ok()?;
    }
    write!(line, "{class:?}").ok()?;
    if matches!(class, Class::Call | Class::Function) {
        let name = std::str::from_utf8(name_of(head, sheet)?).ok()?;
        write!(line, " {name}").ok()?;
    }
    Some(())
}

// The classes of all operations but the module, as the text has them.
fn classes_in(alloc: Global, parsed: &ParsedModule) -> Option<String> {
    let mut line = String::new(alloc);
    for taken in parsed.heads.iter().skip(1) {
        if let Some(taken) = taken {
            write_head(&taken.head, &parsed.sheet, &mut line)?;
        }
    }
    Some(line)
}

fn check_row(rt: &impl Abort, alloc: Global, name: &str, asked: &str, wanted: &str) {
    let text = format!(in alloc; "\"builtin.module\"() ({{|{asked}|}}) : () -> ()|").expect(
        rt, "memory",
    );
    let lines = with_lines(alloc, text.as_str()).expect(rt, "memory");
    match parse_text(alloc, lines.as_bytes()) {
        Ok(parsed) => {
            let found = classes_in(alloc, &parsed).expect(rt, "classes");
            assert!(rt; found.as_str() == wanted, "{name} => {found}");
        }
        Err(_) => panic!(rt; "{name}"),
    }
}

#[test]
fn classes_say_names(rt: HostRuntime) {
    for row in ROWS.lines() {
        let (name, rest) = row.split_once(" -- ").expect(&rt, "a name");
        let (asked, wanted) = rest.split_once(" => ").expect(&rt, "a case");
        check_row(&rt, rt.alloc(), name, asked, wanted);
    }
}

/// What an inliner asks of the head of each class: the number of the name of what it calls, the number of its own name, and
/// whether it never leaves its function, so that it may be copied to another one.
static ANSWERS: &str = "\
Call => calls 7, stays
Function => is 7
Effect => stays
Local =>
Root =>
Fork =>
Regions =>
Leave => returns, closes
Jump => jumps, stays, closes
Opaque => stays
Unreachable => stays, closes
";

static CLASSES: [Class; 11] = [
    Class::Call,
    Class::Function,
    Class::Effect,
    Class::Local,
    Class::Root,
    Class::Fork,
    Class::Regions,
    Class::Leave,
    Class::Jump,
    Class::Opaque,
    Class::Unreachable,
];

fn head_of(alloc: Global, class: Class) -> Option<Head> {
    match class {
        Class::Call | Class::Function => named_head(alloc, class, 7, 9).ok(),
        _ => plain_head(alloc, class, 9).ok(),
    }
}

fn push(line: &mut String, word: &str) -> Option<()> {
    if !line.is_empty() {
        line.push_str(", ").ok()?;
    }
    line.push_str(word).ok()
}

fn push_name(line: &mut String, word: &str, name: Option<&AttrObj>) -> Option<()> {
    if let Some(AttrObj::Int(number)) = name {
        push(line, word)?;
        write!(line, " {number}").ok()?;
    }
    Some(())
}

fn push_answers(op: Ptr<Operation>, ctx: &Context, line: &mut String) -> Option<()> {
    if !op.is_live(ctx) {
        return None;
    }
    push_name(line, "calls", Mlir::<AnyMeaning>::callee_name(op, ctx))?;
    push_name(line, "is", Mlir::<AnyMeaning>::symbol_name(op, ctx))?;
    if Mlir::<AnyMeaning>::is_return(op, ctx) {
        push(line, "returns")?;
    }
    if Mlir::<AnyMeaning>::is_jump(op, ctx) {
        push(line, "jumps")?;
    }
    if Mlir::<AnyMeaning>::never_leaves(op, ctx) {
        push(line, "stays")?;
    }
    if Mlir::<AnyMeaning>::never_gives(op, ctx) {
        push(line, "closes")?;
    }
    Some(())
}

fn answered(alloc: Global, ctx: &mut Context, class: Class) -> Option<String> {
    let op = Operation::create(ctx, head_of(alloc, class)?, 0, 0).ok()?;
    let mut line = format!(in alloc; "{class:?} =>").ok()?;
    let mut answers = String::new(alloc);
    push_answers(op, ctx, &mut answers)?;
    if !answers.is_empty() {
        write!(line, " {answers}").ok()?;
    }
    Some(line)
}

fn check_class(rt: &impl Abort, alloc: Global, class: Class, wanted: &str) {
    let line = answered(alloc, &mut Context::new(alloc), class).expect(rt, "the whole");
    assert!(rt; line.as_str() == wanted, "{line}");
}

#[test]
fn an_inliner_is_answered(rt: HostRuntime) {
    for (class, wanted) in CLASSES.iter().zip(ANSWERS.lines()) {
        check_class(&rt, rt.alloc(), *class, wanted);
    }
}
