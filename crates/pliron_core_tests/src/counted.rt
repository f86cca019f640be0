//! Long lists of operands and of arguments that get an index, lose items at many places, get others in between,
//! and lose the index again. What is read is compared with a plain `Vec` after each step.

use crate::arguments::{arguments_of, remove_argument};
use crate::removals::{make_values, operands_of, remove_operand};
use crate::steps::{CONST, add_operand, block, in_new_context, operation};
use pliron_core::{BasicBlock, Context, Operation, Ptr, Value};
use std::alloc::Global;
use std::process::Abort;

// Which item is removed next: one of each end in turn, each third, one behind the last removed one, or as the
// list says.
#[derive(Clone, Copy)]
enum Order {
    Ends,
    Thirds,
    Front,
    Listed,
}

// Places at random, which count modulo the number of items.
static PLACES: [usize; 24] = [
    7, 131, 58, 3, 190, 77, 16, 149, 102, 0, 64, 65, 63, 1, 177, 41, 88, 12, 199, 120, 29, 154, 95,
    2,
];

fn place_at(rt: &impl Abort, order: Order, k: usize, len: usize) -> usize {
    assert!(rt; len > 0);
    match order {
        Order::Ends => if k % 2 == 0 { 0 } else { len - 1 },
        Order::Thirds => k.wrapping_mul(2) % len,
        Order::Front => 0,
        Order::Listed => PLACES[k % 24] % len,
    }
}

// So many operands, of which each fourth names a value again that the one before it has; `lost` of them go, in this
// order; and after each `every` of these one more comes at the end, which takes the index away, so it is asked for
// again.
struct Losses {
    count: usize,
    order: Order,
    lost: usize,
    every: usize,
}

static OPERAND_ROWS: [Losses; 8] = [
    Losses {
        count: 100,
        order: Order::Ends,
        lost: 100,
        every: 0,
    },
    Losses {
        count: 100,
        order: Order::Thirds,
        lost: 70,
        every: 0,
    },
    Losses {
        count: 200,
        order: Order::Listed,
        lost: 120,
        every: 9,
    },
    Losses {
        count: 200,
        order: Order::Thirds,
        lost: 66,
        every: 30,
    },
    Losses {
        count: 130,
        order: Order::Front,
        lost: 130,
        every: 40,
    },
    Losses {
        count: 64,
        order: Order::Listed,
        lost: 40,
        every: 0,
    },
    Losses {
        count: 65,
        order: Order::Listed,
        lost: 65,
        every: 0,
    },
    Losses {
        count: 3,
        order: Order::Ends,
        lost: 3,
        every: 1,
    },
];

/// An operation, and the operands that it should have.
#[derive(Drop)]
struct Listed {
    op: Ptr<Operation>,
    want: Vec<Value>,
}

fn check_operands(rt: &impl Abort, alloc: Global, ctx: &Context, listed: &Listed) {
    let operands = operands_of(rt, alloc, ctx, listed.op);
    assert!(rt; operands == listed.want);
}

fn index_operands(rt: &impl Abort, ctx: &mut Context, op: Ptr<Operation>) {
    assert!(rt; op.is_live(ctx));
    Operation::index_operands(ctx, op).expect(rt, "memory");
}

fn settle_operands(rt: &impl Abort, ctx: &mut Context, op: Ptr<Operation>) {
    assert!(rt; op.is_live(ctx));
    Operation::settle_operands(ctx, op);
}

// One more operand at the end, here and in the list.
fn gain_operand(rt: &impl Abort, ctx: &mut Context, listed: &mut Listed, value: Value) {
    add_operand(rt, ctx, listed.op, value);
    listed.want.push(value).expect(rt, "memory");
}

// The operand that is removed next, here and in the list.
fn lose_operand(rt: &impl Abort, ctx: &mut Context, listed: &mut Listed, order: Order, k: usize) {
    let place = place_at(rt, order, k, listed.want.len());
    let deleted = remove_operand(rt, ctx, listed.op, place);
    assert!(rt; place < listed.want.len());
    assert!(rt; listed.want.remove(place) == deleted);
}

// Each of these, but that each fourth is the one before it again.
fn gain_operands(rt: &impl Abort, ctx: &mut Context, listed: &mut Listed, values: &[Value]) {
    for i in 0..values.len() {
        let named = if i % 4 == 3 { i - 1 } else { i };
        assert!(rt; named < values.len());
        gain_operand(rt, ctx, listed, values[named]);
    }
}

fn lose_operands(
    rt: &impl Abort,
    alloc: Global,
    ctx: &mut Context,
    listed: &mut Listed,
    values: &[Value],
    losses: &Losses,
) {
    let every = losses.every;
    for k in 0..losses.lost {
        lose_operand(rt, ctx, listed, losses.order, k);
        check_operands(rt, alloc, ctx, listed);
        if every > 0 && k % every == every - 1 {
            assert!(rt; k < values.len());
            gain_operand(rt, ctx, listed, values[k]);
            check_operands(rt, alloc, ctx, listed);
            index_operands(rt, ctx, listed.op);
        }
    }
}

// What is left is removed without an index, and one more comes.
fn end_operand_row(rt: &impl Abort, alloc: Global, ctx: &mut Context, listed: &mut Listed) {
    if listed.want.len() > 0 {
        let again = listed.want[0];
        lose_operand(rt, ctx, listed, Order::Ends, 1);
        check_operands(rt, alloc, ctx, listed);
        gain_operand(rt, ctx, listed, again);
    }
}

fn check_operand_row(rt: &impl Abort, alloc: Global, ctx: &mut Context, losses: &Losses) {
    let values = make_values(rt, alloc, ctx, losses.count);
    let mut listed = Listed {
        op: operation(rt, alloc, ctx, CONST, 0, 0),
        want: Vec::new(alloc),
    };
    gain_operands(rt, ctx, &mut listed, &values);
    index_operands(rt, ctx, listed.op);
    check_operands(rt, alloc, ctx, &listed);
    lose_operands(rt, alloc, ctx, &mut listed, &values, losses);
    settle_operands(rt, ctx, listed.op);
    check_operands(rt, alloc, ctx, &listed);
    end_operand_row(rt, alloc, ctx, &mut listed);
    check_operands(rt, alloc, ctx, &listed);
}

fn check_operand_rows(rt: &impl Abort, alloc: Global, ctx: &mut Context) {
    for losses in &OPERAND_ROWS {
        check_operand_row(rt, alloc, ctx, losses);
    }
}

fn check_arguments(
    rt: &impl Abort,
    alloc: Global,
    ctx: &Context,
    block: Ptr<BasicBlock>,
    want: &Vec<Value>,
) {
    let arguments = arguments_of(rt, alloc, ctx, block);
    assert!(rt; arguments == *want);
}

fn index_arguments(rt: &impl Abort, ctx: &mut Context, block: Ptr<BasicBlock>) {
    assert!(rt; block.is_live(ctx));
    BasicBlock::index_arguments(ctx, block).expect(rt, "memory");
}

fn settle_arguments(rt: &impl Abort, ctx: &mut Context, block: Ptr<BasicBlock>) {
    assert!(rt; block.is_live(ctx));
    BasicBlock::settle_arguments(ctx, block);
}

// The argument that is removed next, here and in the list.
fn lose_argument(
    rt: &impl Abort,
    ctx: &mut Context,
    block: Ptr<BasicBlock>,
    want: &mut Vec<Value>,
    order: Order,
    k: usize,
) {
    let place = place_at(rt, order, k, want.len());
    assert!(rt; place < want.len());
    remove_argument(rt, ctx, block, place);
    want.remove(place);
}

// So many arguments, of which `lost` go; after half of these the index is settled and asked for again.
fn check_argument_row(
    rt: &impl Abort,
    alloc: Global,
    ctx: &mut Context,
    count: usize,
    order: Order,
    lost: usize,
) {
    let op = operation(rt, alloc, ctx, CONST, 0, 1);
    let block = block(rt, ctx, op, 0, count);
    let mut want = arguments_of(rt, alloc, ctx, block);
    index_arguments(rt, ctx, block);
    for k in 0..lost {
        lose_argument(rt, ctx, block, &mut want, order, k);
        check_arguments(rt, alloc, ctx, block, &want);
        if k == lost / 2 {
            settle_arguments(rt, ctx, block);
            check_arguments(rt, alloc, ctx, block, &want);
            index_arguments(rt, ctx, block);
        }
    }
    settle_arguments(rt, ctx, block);
    check_arguments(rt, alloc, ctx, block, &want);
}

fn check_argument_rows(rt: &impl Abort, alloc: Global, ctx: &mut Context) {
    check_argument_row(rt, alloc, ctx, 100, Order::Ends, 100);
    check_argument_row(rt, alloc, ctx, 100, Order::Thirds, 60);
    check_argument_row(rt, alloc, ctx, 200, Order::Listed, 190);
    check_argument_row(rt, alloc, ctx, 200, Order::Front, 50);
    check_argument_row(rt, alloc, ctx, 64, Order::Listed, 20);
}

#[test]
fn indexed_operands_are_those_of_a_list(rt: HostRuntime) {
    in_new_context(&rt, rt.alloc(), check_operand_rows)
}

#[test]
fn indexed_arguments_are_those_of_a_list(rt: HostRuntime) {
    in_new_context(&rt, rt.alloc(), check_argument_rows)
}
