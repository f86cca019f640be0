//! The functions of modules by their names, and their calls of one another.
use crate::lines::with_lines;
use pliron_core::{AttrObj, Context, Operation, Ptr};
use pliron_dialect_mlir::{AnyMeaning, Mlir};
use pliron_graph_calls::FunctionTable;
use pliron_text_mlir_reader::read_module;
use std::alloc::Global;
use std::process::Abort;

type Modules = Mlir<AnyMeaning>;

// A line has a name, the operations of a module, and of each function with a name the places of those that it calls.
static ROWS: &str = "\
no function -- \"t.u\"() : () -> () => none
one that calls nothing -- \"llvm.func\"() <{sym_name = \"f\"}> ({}) : () -> () => 0:
a call of itself -- \"llvm.func\"() <{sym_name = \"f\"}> ({|\"llvm.call\"() <{callee = @f}> : () -> \
    ()|\"llvm.return\"() : () -> ()|}) : () -> () => 0: 0
calls in their order -- \"llvm.func\"() <{sym_name = \"f\"}> ({|\"llvm.call\"() <{callee = @h}> : () -> \
    ()|\"llvm.call\"() <{callee = @g}> : () -> ()|\"llvm.br\"() [^b] : () -> ()|^b:|\"llvm.call\"() <{callee = @h}> : \
    () -> ()|\"llvm.return\"() : () -> ()|}) : () -> ()|\"llvm.func\"() <{sym_name = \"g\"}> ({}) : () -> \
    ()|\"llvm.func\"() <{sym_name = \"h\"}> ({}) : () -> () => 0: 2 1 2|1:|2:
a call of another module -- \"llvm.func\"() <{sym_name = \"f\"}> ({|\"llvm.call\"() <{callee = @g}> : () -> \
    ()|\"llvm.return\"() : () -> ()|}) : () -> () => 0:
a function without a name -- \"llvm.func\"() ({}) : () -> ()|\"llvm.func\"() <{sym_name = \"g\"}> ({}) : () -> () => 0:
two of one name -- \"llvm.func\"() <{sym_name = \"f\"}> ({}) : () -> ()|\"llvm.func\"() <{sym_name = \"f\"}> ({}) : () -> \
    () => namesakes
";

// Adds the places of the functions that this one calls.
fn push_calls(
    alloc: Global,
    table: &FunctionTable,
    function: Ptr<Operation>,
    ctx: &Context,
    text: &mut String,
) -> Option<()> {
    if !function.is_live(ctx) {
        return None;
    }
    for site in table.call_sites::<Modules>(alloc, function, ctx).ok()? {
        write!(text, " {}", site.callee).ok()?;
    }
    Some(())
}

fn push_functions(
    alloc: Global,
    table: &FunctionTable,
    ctx: &Context,
    text: &mut String,
) -> Option<()> {
    for (place, function) in table.functions().iter().enumerate() {
        if place > 0 {
            text.push_str("|").ok()?;
        }
        write!(text, "{place}:").ok()?;
        push_calls(alloc, table, *function, ctx, text)?;
    }
    Some(())
}

// The functions and their calls, as rows have them.
fn functions_in(alloc: Global, root: Ptr<Operation>, ctx: &Context) -> Option<String> {
    if !root.is_live(ctx) {
        return None;
    }
    match FunctionTable::of::<Modules>(alloc, root, ctx).ok()? {
        None => String::from_str(alloc, "namesakes").ok(),
        Some(table) if table.functions().is_empty() => String::from_str(alloc, "none").ok(),
        Some(table) => {
            let mut text = String::new(alloc);
            push_functions(alloc, &table, ctx, &mut text)?;
            Some(text)
        }
    }
}

fn found_in(alloc: Global, text: &str, ctx: &mut Context) -> Option<String> {
    let lines = with_lines(alloc, text).ok()?;
    let module = read_module::<Modules>(alloc, lines.as_bytes(), ctx).ok()?;
    functions_in(alloc, module.root, ctx)
}

fn check_row(rt: &impl Abort, alloc: Global, name: &str, asked: &str, wanted: &str) {
    let text = format!(in alloc; "\"builtin.module\"() ({{|{asked}|}}) : () -> ()|").expect(
        rt, "memory",
    );
    let found = found_in(alloc, text.as_str(), &mut Context::new(alloc)).expect(rt, "functions");
    assert!(rt; found.as_str() == wanted, "{name} => {found}");
}

#[test]
fn functions_call_by_name(rt: HostRuntime) {
    for row in ROWS.lines() {
        let (name, rest) = row.split_once(" -- ").expect(&rt, "a name");
        let (asked, wanted) = rest.split_once(" => ").expect(&rt, "a case");
        check_row(&rt, rt.alloc(), name, asked, wanted);
    }
}

/// Names, and the place of the function that has it.
static NAMES: &str = "f 0|g 1|h none|fg none";

fn place_of(alloc: Global, table: &FunctionTable, number: usize) -> Option<String> {
    let found = table
        .find(&AttrObj::Int(i128::try_from(number).ok()?))
        .ok()?;
    match found {
        Some(place) => format!(in alloc; "{place}").ok(),
        None => String::from_str(alloc, "none").ok(),
    }
}

fn find_in(alloc: Global, text: &str, asked: &str, ctx: &mut Context) -> Option<String> {
    let lines = with_lines(alloc, text).ok()?;
    let mut module = read_module::<Modules>(alloc, lines.as_bytes(), ctx).ok()?;
    if !module.root.is_live(ctx) {
        return None;
    }
    let table = FunctionTable::of::<Modules>(alloc, module.root, ctx).ok()??;
    let number = module.sheet.number(asked.as_bytes()).ok()?;
    place_of(alloc, &table, number)
}

fn check_name(rt: &impl Abort, alloc: Global, asked: &str, wanted: &str) {
    let text =
        "\"builtin.module\"() ({|\"llvm.func\"() <{sym_name = \"f\"}> ({}) : () -> ()|\"llvm.func\"() \
        <{sym_name = \"g\"}> ({}) : () -> ()|}) : () -> ()|";
    let found = find_in(alloc, text, asked, &mut Context::new(alloc)).expect(rt, "an answer");
    assert!(rt; found.as_str() == wanted, "{asked} => {found}");
}

#[test]
fn functions_are_found_by_name(rt: HostRuntime) {
    for row in NAMES.split('|') {
        let (asked, wanted) = row.split_once(" ").expect(&rt, "a name");
        check_name(&rt, rt.alloc(), asked, wanted);
    }
}
