//! Tables of cases: each case asks one question of a text or a tree, and wants a text.
use crate::notation::heads;
use crate::{argument_values, bench, branches, tiny};
use pliron_core::{Context, Operation, Ptr};
use pliron_test_cases::cases::{CaseRow, operation_at, read, row_of};
use std::alloc::Global;
use std::process::Abort;

/// What the cases of a table ask.
#[derive(Clone, Copy)]
pub enum Question {
    Effects,
    Interfaces,
    Removals,
    Sums,
    Products,
    Quotients,
    InPlace,
    TestTree,
    Verified,
    Targets,
    Folded,
    Lost,
    Forwarded,
    TinyHeads,
    TinyRemovals,
    TinyNamed,
    TinyEdges,
    Heads,
    OneValue,
}

/// The operation at this place in the text.
pub fn operation_in(
    rt: &impl Abort,
    alloc: Global,
    ctx: &mut Context,
    text: &str,
    place: &str,
) -> Ptr<Operation> {
    let root = read(alloc, ctx, text).expect(rt, "a text");
    operation_at(ctx, root, place).expect(rt, "an operation")
}

fn answer(
    rt: &impl Abort,
    alloc: Global,
    ctx: &mut Context,
    question: Question,
    asked: &str,
) -> String {
    match question {
        Question::Effects => bench::effects_at(rt, alloc, ctx, asked),
        Question::Interfaces => bench::interfaces_of(rt, alloc, ctx, asked),
        Question::Removals => bench::removal(rt, alloc, ctx, asked),
        Question::Sums => bench::fold(rt, alloc, ctx, "0", asked),
        Question::Products => bench::fold(rt, alloc, ctx, "1", asked),
        Question::Quotients => bench::fold(rt, alloc, ctx, "2", asked),
        Question::InPlace => bench::folded_in_place(rt, alloc, ctx, asked),
        Question::TestTree => bench::number_made(rt, alloc, ctx, asked),
        Question::Verified => branches::fault_of(rt, alloc, ctx, asked),
        Question::Targets => branches::targets_of(rt, alloc, ctx, asked),
        Question::Folded => branches::folded(rt, alloc, ctx, asked),
        Question::Lost => branches::without_value(rt, alloc, ctx, asked),
        Question::Forwarded => branches::without_forwarded(rt, alloc, ctx, asked),
        Question::TinyHeads => tiny::head(rt, alloc, ctx, asked),
        Question::TinyRemovals => tiny::removal(rt, alloc, ctx, asked),
        Question::TinyNamed => tiny::named_operand(rt, alloc, ctx, asked),
        Question::TinyEdges => tiny::edges_of(rt, alloc, ctx, asked),
        Question::Heads => heads::head(rt, alloc, ctx, asked),
        Question::OneValue => argument_values::texts::left_of(rt, alloc, ctx, asked),
    }
}

fn check_in(rt: &impl Abort, alloc: Global, ctx: &mut Context, question: Question, row: &CaseRow) {
    let answer = answer(rt, alloc, ctx, question, row.asked);
    assert_eq!(rt; answer.as_str(), row.want, "{}", row.name);
}

fn check_row(rt: &impl Abort, alloc: Global, question: Question, row: &CaseRow) {
    let mut ctx = Context::new(alloc);
    check_in(rt, alloc, &mut ctx, question, row)
}

/// Asks each case of the table.
pub fn check_table(rt: &impl Abort, alloc: Global, question: Question, table: &str) {
    for line in table.lines() {
        check_row(rt, alloc, question, &row_of(line).expect(rt, "a case"));
    }
}
