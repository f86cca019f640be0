//! The tree of `func { b0(): a = const 1; b = const 2; c = add a b; ret c }`.

use crate::steps::{
    FUNC, add_operand, append_constant, append_operation, block, operation, result_of,
};
use pliron_core::{BasicBlock, Context, Operation, Ptr};
use std::alloc::Global;
use std::process::Abort;

const ADD: u32 = 3;

const RET: u32 = 14;

#[derive(Clone, Copy)]
pub struct Sum {
    pub func: Ptr<Operation>,
    pub block: Ptr<BasicBlock>,
    pub one: Ptr<Operation>,
    pub two: Ptr<Operation>,
    pub add: Ptr<Operation>,
    pub ret: Ptr<Operation>,
}

pub fn build_sum(rt: &impl Abort, alloc: Global, ctx: &mut Context) -> Sum {
    let func = operation(rt, alloc, ctx, FUNC, 0, 1);
    let block = block(rt, ctx, func, 0, 0);
    let one = append_constant(rt, alloc, ctx, block, 1);
    let two = append_constant(rt, alloc, ctx, block, 2);
    let add = append_operation(rt, alloc, ctx, block, ADD, 1);
    let ret = append_operation(rt, alloc, ctx, block, RET, 0);
    let sum = Sum {
        func,
        block,
        one,
        two,
        add,
        ret,
    };
    connect_sum(rt, ctx, &sum);
    sum
}

fn connect_sum(rt: &impl Abort, ctx: &mut Context, sum: &Sum) {
    let a = result_of(rt, ctx, sum.one, 0);
    let b = result_of(rt, ctx, sum.two, 0);
    let c = result_of(rt, ctx, sum.add, 0);
    add_operand(rt, ctx, sum.add, a);
    add_operand(rt, ctx, sum.add, b);
    add_operand(rt, ctx, sum.ret, c)
}
