//! Operands that are removed one after the other, at places in any order, with others pushed in between.

use crate::steps::{CONST, add_operand, constant, operand_of, operation, result_of};
use crate::tables::{Table, check_table, number, places};
use pliron_core::{Context, Operation, Ptr, Value};
use std::alloc::Global;
use std::process::Abort;

// A name; how many values the operation uses at first, each once, in order; then the place of the operand that is
// removed, or `+` and the value that is pushed; and the values that it uses in the end. Made by `tools/expected`
// over plain lists.
static REMOVALS: &str = "\
the only one -- 1 0 =>
from the last to the first -- 5 4 3 2 1 0 =>
from the first to the last -- 5 0 0 0 0 0 =>
each second, the last first -- 6 5 3 1 => 0 2 4
each second, the first first -- 6 1 2 3 => 0 2 4
ends and a middle -- 6 0 4 0 2 => 2 3
two pushed in between, of four -- 4 1 +0 1 +1 0 0 => 0 1
four pushed in between, of four -- 4 2 +3 0 1 0 0 +3 0 +1 0 +0 => 0
the first two, then a push -- 8 0 0 +4 => 2 3 4 5 6 7 4
five pushed in between, of six -- 6 +3 +3 7 +1 +0 7 6 +2 6 4 4 => 0 1 2 3 2
three pushed in between, of four -- 4 0 +1 2 +0 +1 4 0 => 2 1 0
four pushed in between, of three -- 3 +1 0 0 1 +0 0 0 +2 +1 => 2 1
two pushed in between, of seven -- 7 +2 1 0 +3 2 => 2 3 5 6 2 3
five pushed in between, of four -- 4 2 0 +3 2 0 0 +3 0 +2 0 +2 0 +3 => 3
one pushed in between, of seven -- 7 4 1 2 2 1 +0 2 => 0 6
two pushed in between, none left -- 3 1 1 0 +1 +2 1 0 =>
three pushed in between, one left -- 7 +2 4 1 5 0 2 0 0 0 +4 0 +6 => 6
the first two of three -- 3 0 0 => 2
one pushed in between, of nine -- 9 1 +5 6 4 5 3 => 0 2 3 6 5
three pushed in between, of seven -- 7 3 0 4 +3 1 3 +5 +2 => 1 4 5 5 2";

// So many operations with one result each, and their results.
pub fn make_values(rt: &impl Abort, alloc: Global, ctx: &mut Context, count: usize) -> Vec<Value> {
    let mut values = Vec::new(alloc);
    for _ in 0..count {
        let one = constant(rt, alloc, ctx, 1);
        values.push(result_of(rt, ctx, one, 0)).expect(rt, "memory");
    }
    values
}

// The operand of this index is removed, and answered.
pub fn remove_operand(
    rt: &impl Abort,
    ctx: &mut Context,
    op: Ptr<Operation>,
    place: usize,
) -> Value {
    assert!(rt; op.is_live(ctx));
    assert!(rt; place < op.num_operand(ctx));
    let operand = op.get_operand(ctx, place);
    let deleted = Operation::remove_operand(ctx, op, place);
    assert!(rt; deleted == operand);
    deleted
}

// The value comes to this index.
pub fn insert_operand(
    rt: &impl Abort,
    ctx: &mut Context,
    op: Ptr<Operation>,
    place: usize,
    value: Value,
) {
    assert!(rt; op.is_live(ctx));
    assert!(rt; place <= op.num_operand(ctx));
    assert!(rt; value.is_live(ctx));
    Operation::insert_operand(ctx, op, place, value).expect(rt, "memory");
}

// The value that a word names.
fn named(rt: &impl Abort, values: &[Value], word: &str) -> Value {
    let i = number(rt, word);
    assert!(rt; i < values.len());
    values[i]
}

// One step of a case.
fn step(rt: &impl Abort, ctx: &mut Context, op: Ptr<Operation>, values: &[Value], word: &str) {
    if let Some((name, place)) = word.split_once("@") {
        let value = named(rt, values, name);
        return insert_operand(rt, ctx, op, number(rt, place), value);
    }
    match word.strip_prefix("+") {
        Some(name) => {
            let value = named(rt, values, name);
            add_operand(rt, ctx, op, value)
        }
        None => {
            remove_operand(rt, ctx, op, number(rt, word));
        }
    }
}

// Whether a use of the value is the operand at this place.
fn is_used_at(
    rt: &impl Abort,
    ctx: &Context,
    value: Value,
    op: Ptr<Operation>,
    place: usize,
) -> bool {
    assert!(rt; value.is_live(ctx));
    for i in 0..value.num_use(ctx) {
        if value.get_use(ctx, i) == (op, place) {
            return true;
        }
    }
    false
}

// The operands in order, each of which is a use of its value.
pub fn operands_of(
    rt: &impl Abort,
    alloc: Global,
    ctx: &Context,
    op: Ptr<Operation>,
) -> Vec<Value> {
    let mut values = Vec::new(alloc);
    assert!(rt; op.is_live(ctx));
    for i in 0..op.num_operand(ctx) {
        let value = operand_of(rt, ctx, op, i);
        assert!(rt; is_used_at(rt, ctx, value, op, i));
        values.push(value).expect(rt, "memory");
    }
    values
}

// How often these are used.
fn count_all_uses(rt: &impl Abort, ctx: &Context, values: &[Value]) -> usize {
    let mut count: usize = 0;
    for value in values {
        assert!(rt; value.is_live(ctx));
        count = count.saturating_add(value.num_use(ctx));
    }
    count
}

fn add_operands(rt: &impl Abort, ctx: &mut Context, op: Ptr<Operation>, values: &[Value]) {
    for value in values {
        add_operand(rt, ctx, op, *value);
    }
}

fn take_steps(
    rt: &impl Abort,
    ctx: &mut Context,
    op: Ptr<Operation>,
    values: &[Value],
    words: &str,
) {
    for word in words.split_whitespace() {
        step(rt, ctx, op, values, word);
    }
}

// The operands that are left, by the first places of their values.
pub fn left(rt: &impl Abort, alloc: Global, ctx: &mut Context, asked: &str) -> String {
    let (count, words) = asked.split_once(" ").expect(rt, "steps");
    let values = make_values(rt, alloc, ctx, number(rt, count));
    let op = operation(rt, alloc, ctx, CONST, 0, 0);
    add_operands(rt, ctx, op, &values);
    take_steps(rt, ctx, op, &values, words);
    let left = operands_of(rt, alloc, ctx, op);
    assert_eq!(rt; count_all_uses(rt, ctx, &values), left.len());
    places(rt, alloc, &left, &values)
}

#[test]
fn removes_operands_in_any_order(rt: HostRuntime) {
    check_table(&rt, rt.alloc(), Table::Operands, REMOVALS)
}
