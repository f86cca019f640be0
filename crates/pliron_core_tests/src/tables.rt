//! The tables of the crate: a case a line, `NAME -- ASKED =>ANSWER`, from text to text.
use crate::{arguments, removals, rows};
use pliron_core::{Context, Value};
use std::alloc::Global;
use std::process::Abort;

/// What is asked of each case of a table.
#[derive(Clone, Copy)]
pub enum Table {
    Arguments,
    Operands,
    Rows,
}

fn answer(rt: &impl Abort, alloc: Global, ctx: &mut Context, table: Table, asked: &str) -> String {
    match table {
        Table::Arguments => arguments::left(rt, alloc, ctx, asked),
        Table::Operands => removals::left(rt, alloc, ctx, asked),
        Table::Rows => rows::left(rt, alloc, asked),
    }
}

fn check_case(rt: &impl Abort, alloc: Global, ctx: &mut Context, table: Table, line: &str) {
    let (name, case) = line.split_once(" -- ").expect(rt, "a name");
    let (asked, want) = case.split_once("=>").expect(rt, "a case");
    let said = answer(rt, alloc, ctx, table, asked);
    assert_eq!(rt; said.as_str(), want, "{name}");
}

fn check_cases(rt: &impl Abort, alloc: Global, ctx: &mut Context, table: Table, cases: &str) {
    for line in cases.lines() {
        check_case(rt, alloc, ctx, table, line);
    }
}

/// Each case of the table is answered as it says.
pub fn check_table(rt: &impl Abort, alloc: Global, table: Table, cases: &str) {
    let mut ctx = Context::new(alloc);
    check_cases(rt, alloc, &mut ctx, table, cases)
}

/// The number that a word of a case is.
pub fn number(rt: &impl Abort, word: &str) -> usize {
    word.parse::<usize>().ok().expect(rt, "a number")
}

// The first place of the value among these.
fn place_of(values: &[Value], value: Value) -> usize {
    for i in 0..values.len() {
        if values[i] == value {
            return i;
        }
    }
    values.len()
}

/// The places that these values have among others, a blank before each.
pub fn places(rt: &impl Abort, alloc: Global, left: &[Value], values: &[Value]) -> String {
    let mut text = String::new(alloc);
    for value in left {
        write!(text, " {}", place_of(values, *value)).expect(rt, "memory");
    }
    text
}
