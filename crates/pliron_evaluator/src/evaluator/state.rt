//! The state of a run, and what a step makes of it. Each function is named as the definition that it
//! keeps.
ghost use Rattle.std.specs.Prelude.{◌≡◌, [], ◌∷◌, map, drop, slice_get, Some, IfOk, IfSome};
ghost use Rattle.std.specs.Option.{ForSome};
ghost use Rattle.pliron_core.specs.Tree.{IsLive, IsBlock, operands_of, results_of, regions_of, successors_of};
ghost use Rattle.pliron_laws.specs.Tree.{Operation as OperationRecord, op_at, and_block};
ghost use Rattle.pliron_laws.specs.Machine.{start, trap, at_rest, bind, leave, after_giving, enter, go_to, emit, entry_in, input_of, perform, turn, step};
ghost use Rattle.pliron_evaluator.specs.Evaluator.{datum_of_value, move_of, environment_of, answer_of_values, waiting_of, state_of, next_of_value};

use crate::evaluator::environment::{
    all_data, bind, first, first_operation, put_first, take_first,
};
use crate::evaluator::values::{Datum, Evaluate, Move, Sight, all_copies, one};
use pliron_core::{BasicBlock, Context, Operation, Ptr, Value};
use pliron_laws::reads::{all_arguments, all_operands, all_operations, all_results};
use std::alloc::{AllocError, Global};
use std::collections::{HashMap, VecDeque};
use std::mem;

/// An operation that waits for the end of an invocation, with those after it in its block.
#[derive(Drop)]
pub(super) struct WaitingOperation {
    pub(super) rest: VecDeque<Ptr<Operation>>,
    pub(super) memo: Datum,
}

/// The state of a run: the newest waiting operation and effect come first.
#[derive(Drop)]
pub(super) struct State {
    pub(super) environment: HashMap<Value, Datum>,
    pub(super) rest: VecDeque<Ptr<Operation>>,
    pub(super) memo: Datum,
    pub(super) answer: Option<Vec<Datum>>,
    pub(super) waiting: VecDeque<WaitingOperation>,
    pub(super) world: VecDeque<Datum>,
    pub(super) effects: VecDeque<Datum>,
}

/// What a step comes to.
#[derive(Drop)]
pub(super) enum Next {
    Continues(State),
    Over(Sight),
}

fn trap(state: State) -> Next
    ensures { next_of_value result ≡ trap (state_of state) }
{
    Next::Over(Sight::Trapped(Vec::from(state.effects)))
}

// The next operation begins, at its first move.
fn at_rest(state: State) -> State
    ensures { state_of result ≡ at_rest (state_of state) (environment_of state.environment) state.rest.items
        (map waiting_of state.waiting.items) }
{
    State {
        memo: Datum::Empty,
        answer: None,
        ..state
    }
}

// An invocation ends with these values, or the run where no invocation is open.
fn leave(mut state: State, values: Vec<Datum>) -> Next
    ensures { next_of_value result ≡ leave (state_of state) (map waiting_of state.waiting.items)
        (map datum_of_value values.items) }
{
    match take_first(&mut state.waiting) {
        Some(waiting) => Next::Continues(State {
            rest: waiting.rest,
            memo: waiting.memo,
            answer: Some(values),
            ..state
        }),
        None => Next::Over(Sight::Ended(values, Vec::from(state.effects))),
    }
}

// The operation gives these values as its results.
fn give(
    alloc: Global,
    ctx: &Context,
    mut state: State,
    op: Ptr<Operation>,
    values: Vec<Datum>,
) -> Result<Next, AllocError>
    requires live { IsLive ctx.now.tree op }
    requires first { slice_get state.rest.items 0 ≡ Some op }
    ensures { IfOk result (λ next. next_of_value next ≡ after_giving (state_of state) (drop 1 state.rest.items)
        (map waiting_of state.waiting.items) (map datum_of_value values.items) (bind (environment_of state.environment)
        (results_of ctx.now.tree op) (map datum_of_value values.items))) }
{
    let results = all_results(alloc, op, ctx)?;
    if !bind(
        alloc,
        &mut state.environment,
        results.as_slice(),
        values.as_slice(),
    )? {
        return Ok(trap(state));
    }
    if first(&state.waiting).is_none() {
        return Ok(Next::Over(Sight::Ended(values, Vec::from(state.effects))));
    }
    state.rest.pop_front();
    Ok(Next::Continues(at_rest(state)))
}

// The block, if there is one, begins with these values as its arguments.
fn enter(
    alloc: Global,
    ctx: &Context,
    mut state: State,
    block: Option<Ptr<BasicBlock>>,
    values: Vec<Datum>,
) -> Result<Next, AllocError>
    requires { ForSome block (λ b. IsBlock ctx.now.tree b) }
    ensures { IfOk result (λ next. next_of_value next ≡ enter (state_of state) (and_block ctx.now.tree block)
        (map datum_of_value values.items) (map waiting_of state.waiting.items)) }
{
    let Some(block) = block else {
        return Ok(trap(state));
    };
    let arguments = all_arguments(alloc, block, ctx)?;
    if !bind(
        alloc,
        &mut state.environment,
        arguments.as_slice(),
        values.as_slice(),
    )? {
        return Ok(trap(state));
    }
    state.rest = VecDeque::from(all_operations(alloc, block, ctx)?);
    Ok(Next::Continues(at_rest(state)))
}

// The block at which a visit of the operation's region with this index begins.
fn entry(ctx: &Context, op: Ptr<Operation>, i: usize) -> Option<Ptr<BasicBlock>>
    requires { IsLive ctx.now.tree op }
    ensures block { and_block ctx.now.tree result ≡ entry_in ctx.now.tree (slice_get (regions_of ctx.now.tree op) i) }
    ensures liveness { IfSome result (λ b. IsBlock ctx.now.tree b) }
{
    if i < op.num_region(ctx) {
        op.get_region(ctx, i).get_head(ctx)
    } else {
        None
    }
}

// The operation's successor with this index.
fn successor(ctx: &Context, op: Ptr<Operation>, i: usize) -> Option<Ptr<BasicBlock>>
    requires { IsLive ctx.now.tree op }
    ensures block { result ≡ slice_get (successors_of ctx.now.tree op) i }
    ensures liveness { IfSome result (λ b. IsBlock ctx.now.tree b) }
{
    if i < op.num_successor(ctx) {
        Some(op.get_successor(ctx, i))
    } else {
        None
    }
}

// The first of the operations invokes a region whose entry is this block, if there is one, and waits.
fn visit(
    alloc: Global,
    ctx: &Context,
    mut state: State,
    entry: Option<Ptr<BasicBlock>>,
    values: Vec<Datum>,
    memo: Datum,
) -> Result<Next, AllocError>
    requires { ForSome entry (λ b. IsBlock ctx.now.tree b) }
    ensures { IfOk result (λ next. next_of_value next ≡ enter (state_of state)
        (and_block ctx.now.tree entry) (map datum_of_value values.items)
        (record { rest = state.rest.items; memo = datum_of_value memo } ∷ map waiting_of state.waiting.items)) }
{
    let rest = mem::replace(&mut state.rest, VecDeque::new(alloc));
    put_first(&mut state.waiting, WaitingOperation { rest, memo })?;
    enter(alloc, ctx, state, entry, values)
}

// The operation jumps to its successor with this index.
fn go_to(
    alloc: Global,
    ctx: &Context,
    state: State,
    op: Ptr<Operation>,
    i: usize,
    values: Vec<Datum>,
) -> Result<Next, AllocError>
    requires { IsLive ctx.now.tree op }
    ensures { IfOk result (λ next. next_of_value next ≡ go_to ctx.now.tree (state_of state)
        (slice_get (successors_of ctx.now.tree op) i) (map datum_of_value values.items)
        (map waiting_of state.waiting.items)) }
{
    if first(&state.waiting).is_none() {
        return Ok(trap(state));
    }
    enter(alloc, ctx, state, successor(ctx, op, i), values)
}

// The effect is emitted, and the environment answers, or the run makes no further move.
fn emit(alloc: Global, mut state: State, effect: Datum, memo: Datum) -> Result<Next, AllocError>
    ensures { IfOk result (λ next. next_of_value next ≡ emit (state_of state) (datum_of_value effect)
        (datum_of_value memo) (map datum_of_value state.world.items)) }
{
    put_first(&mut state.effects, effect)?;
    match take_first(&mut state.world) {
        Some(answer) => {
            let answer = Some(one(alloc, answer)?);
            Ok(Next::Continues(State {
                memo,
                answer,
                ..state
            }))
        }
        None => Ok(Next::Over(Sight::Reached(Vec::from(state.effects)))),
    }
}

// The first of the operations makes this move.
fn perform(
    alloc: Global,
    ctx: &Context,
    state: State,
    op: Ptr<Operation>,
    next: Move,
) -> Result<Next, AllocError>
    requires live { IsLive ctx.now.tree op }
    requires first { slice_get state.rest.items 0 ≡ Some op }
    ensures { IfOk result (λ after. (o : OperationRecord) → op_at ctx.now.tree op ≡ Some o → next_of_value after ≡
        perform ctx.now.tree (state_of state) o op (drop 1 state.rest.items) (move_of next)) }
{
    match next {
        Move::Give(values) => give(alloc, ctx, state, op, values),
        Move::Visit(i, values, memo) => visit(alloc, ctx, state, entry(ctx, op, i), values, memo),
        Move::Goto(i, values) => go_to(alloc, ctx, state, op, i, values),
        Move::Leave(values) => Ok(leave(state, values)),
        Move::Emit(effect, memo) => emit(alloc, state, effect, memo),
        Move::Trap => Ok(trap(state)),
    }
}

/// The input of the operation: what it was answered, or the data of its operands.
pub(super) fn input_of(
    alloc: Global,
    ctx: &Context,
    state: &State,
    op: Ptr<Operation>,
) -> Result<Option<Vec<Datum>>, AllocError>
    requires { IsLive ctx.now.tree op }
    ensures { IfOk result (λ input. answer_of_values input ≡ input_of (environment_of state.now.environment)
        (operands_of ctx.now.tree op) (answer_of_values state.now.answer)) }
{
    match &state.answer {
        Some(answer) => Ok(Some(all_copies(alloc, answer.as_slice())?)),
        None => {
            let operands = all_operands(alloc, op, ctx)?;
            all_data(alloc, &state.environment, operands.as_slice())
        }
    }
}

// The first of the operations makes its move.
fn turn<D: Evaluate>(
    alloc: Global,
    ctx: &Context,
    state: State,
    op: Ptr<Operation>,
) -> Result<Next, AllocError>
    requires { slice_get state.rest.items 0 ≡ Some op }
    ensures { IfOk result (λ after. next_of_value after ≡ turn D.meaning ctx.now.tree (state_of state) op
        (drop 1 state.rest.items) (op_at ctx.now.tree op)) }
{
    if !op.is_live(ctx) {
        return Ok(trap(state));
    }
    let Some(input) = input_of(alloc, ctx, &state, op)? else {
        return Ok(trap(state));
    };
    let next = D::next_move(alloc, ctx, op, &state.memo, input.as_slice())?;
    perform(alloc, ctx, state, op, next)
}

/// One move, or the end of a block that no operation ended.
pub(super) fn step<D: Evaluate>(
    alloc: Global,
    ctx: &Context,
    state: State,
) -> Result<Next, AllocError>
    ensures { IfOk result (λ after. next_of_value after ≡ step D.meaning ctx.now.tree (state_of state)) }
{
    match first_operation(&state.rest) {
        Some(op) => turn::<D>(alloc, ctx, state, op),
        None => Ok(leave(state, Vec::new(alloc))),
    }
}

/// The run of a root, before its first step.
pub(super) fn start(
    alloc: Global,
    root: Ptr<Operation>,
    inputs: Vec<Datum>,
    world: Vec<Datum>,
) -> Result<State, AllocError>
    ensures { IfOk result (λ state. state_of state ≡ start root (map datum_of_value inputs.items)
        (map datum_of_value world.items)) }
{
    let mut rest = VecDeque::new(alloc);
    rest.push_back(root)?;
    Ok(State {
        environment: HashMap::new(alloc),
        rest,
        memo: Datum::Empty,
        answer: Some(inputs),
        waiting: VecDeque::new(alloc),
        world: VecDeque::from(world),
        effects: VecDeque::new(alloc),
    })
}
