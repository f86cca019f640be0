//! The moves of `Bench`.
ghost use Rattle.std.specs.Prelude.{◌≡◌, ◌-◌, ◌<◌, [], ◌∷◌, pos, Some, map, take, drop, replicate, slice_index_or, IfOk};
ghost use Rattle.std.specs.Int.{w64, int_wrap};
ghost use Rattle.pliron_core.specs.Tree.{IsLive, successors_of};
ghost use Rattle.pliron_laws.specs.Tree.{Operation as OperationRecord, op_at, shape_of, block_at, count_arguments};
ghost use Rattle.pliron_laws.specs.Datum.{Number as NumberOf, Text as TextOf, Give, Visit, Goto, Leave, Emit, Join as JoinOf, datum_of as content_of};
ghost use Rattle.pliron_laws.specs.Answers.{ReadsHead};
ghost use Rattle.pliron_dialect.specs.Counted.{first_edge_count as first_count_of, two_counts, values_of_edge};
ghost use Rattle.pliron_dialect.specs.Roles.{act_of, numbers_of, number_of as number_in, first_number as first_number_in, first_attribute, fit_data as fit_or_empty_of, give_or_trap};
ghost use Rattle.pliron_dialect_bench.specs.Bench.{kind_of};
ghost use Rattle.pliron_dialect_bench.specs.BenchNumbers.{wrapped_known_at as known_of, known_sum as known_sum_of, known_product as known_product_of, known_quotient as known_quotient_of};
ghost use Rattle.pliron_dialect_bench.specs.BenchMoves.{bench, bench_role, bench_value, datum_at, memo_when_done, once, fit_with_zeros, read_word, print_word, edge_taken as edge_taken_by};
ghost use Rattle.pliron_evaluator.specs.Evaluator.{datum_of_value, move_of};

use crate::evaluator::shapes::{num_entry_argument, num_target_argument};
use crate::evaluator::tiny_moves::fit_data as fit_or_empty;
use crate::evaluator::values::{Datum, Evaluate, Move, all_copies, one};
use pliron_core::{Attrs, Context, Operation, Ptr, Text};
use pliron_dialect_bench::jumps::first_edge_count;
use pliron_dialect_bench::numbers::{edge_of, known_product, known_quotient, known_sum, wrap};
use pliron_dialect_bench::tables::kind_at;
use pliron_dialect_bench::{Bench, BenchKind};
use std::alloc::{AllocError, Global};

// The datum at this index, where a missing one counts as 0.
fn datum_at(alloc: Global, input: &[Datum], i: usize) -> Result<Datum, AllocError>
    ensures { IfOk result (λ datum. datum_of_value datum ≡ datum_at (map datum_of_value input.now) i) }
{
    if i < input.len() {
        input[i].copy(alloc)
    } else {
        Ok(Datum::Number(0))
    }
}

// The datum as a number, by default 0.
fn number_of(datum: &Datum) -> i128
    ensures { result ≡ number_in (datum_of_value datum.now) }
{
    match datum {
        Datum::Number(number) => *number,
        _ => 0,
    }
}

// What is left of the datum as a number in 64 signed bits.
fn narrow_number(datum: &Datum) -> i64
    ensures { result ≡ int_wrap w64 (number_in (datum_of_value datum.now)) }
{
    wrap(number_of(datum))
}

// The number of the datum at this index, where there is one, brought into 64 signed bits.
fn known_at(input: &[Datum], i: usize) -> Option<i64>
    ensures { result ≡ known_of (map Some (numbers_of (map datum_of_value input.now))) i }
{
    if i < input.len() {
        Some(narrow_number(&input[i]))
    } else {
        None
    }
}

// The first of the data as a number, by default 0.
fn first_number(input: &[Datum]) -> i128
    ensures { result ≡ first_number_in (map datum_of_value input.now) }
{
    if input.is_empty() {
        0
    } else {
        number_of(&input[0])
    }
}

// The edge that is taken on this input.
fn edge_taken(input: &[Datum]) -> usize
    ensures edge { result ≡ edge_taken_by (map datum_of_value input.now) }
    ensures within { result < 2 }
{
    edge_of(wrap(first_number(input)))
}

// The number alone.
fn one_number(alloc: Global, number: i64) -> Result<Vec<Datum>, AllocError>
    ensures { IfOk result (λ values. map datum_of_value values.items ≡ NumberOf number ∷ []) }
{
    one(alloc, Datum::Number(number as i128))
}

// So many data, cut or filled with 0.
fn fit_data(alloc: Global, count: usize, input: &[Datum]) -> Result<Vec<Datum>, AllocError>
    ensures { IfOk result (λ values. map datum_of_value values.items ≡ fit_with_zeros count
        (map datum_of_value input.now)) }
{
    let mut data = Vec::new(alloc);
    for i in 0..count {
        data.push(datum_at(alloc, input, i)?)?;
    }
    Ok(data)
}

// So many copies of the datum.
fn copies_of(alloc: Global, datum: &Datum, count: usize) -> Result<Vec<Datum>, AllocError>
    ensures { IfOk result (λ copies. map datum_of_value copies.items ≡ replicate count (datum_of_value datum.now)) }
{
    let mut copies = Vec::new(alloc);
    for _ in 0..count {
        copies.push(datum.copy(alloc)?)?;
    }
    Ok(copies)
}

fn word(alloc: Global, text: &str) -> Result<Datum, AllocError>
    ensures { IfOk result (λ datum. datum_of_value datum ≡ TextOf text.now) }
{
    Ok(Datum::Text(Text::new(String::from_str(alloc, text)?)))
}

// The memo after a visit or an effect.
fn memo_when_done() -> Datum
    ensures { datum_of_value result ≡ memo_when_done }
{
    Datum::Number(1)
}

// The first region is visited.
fn visit(alloc: Global, count: usize, input: &[Datum]) -> Result<Move, AllocError>
    ensures { IfOk result (λ next. move_of next ≡ Visit 0 (fit_with_zeros count (map datum_of_value input.now))
        memo_when_done) }
{
    let values = fit_data(alloc, count, input)?;
    Ok(Move::Visit(0, values, memo_when_done()))
}

fn func_move(alloc: Global, memo: &Datum, count: usize, input: &[Datum]) -> Result<Move, AllocError>
    ensures { IfOk result (λ next. move_of next ≡ once (datum_of_value memo.now)
        (Visit 0 (fit_with_zeros count (map datum_of_value input.now)) memo_when_done)
        (Leave (map datum_of_value input.now))) }
{
    match memo {
        Datum::Empty => visit(alloc, count, input),
        _ => Ok(Move::Leave(all_copies(alloc, input)?)),
    }
}

fn scope_move(
    alloc: Global,
    memo: &Datum,
    count: usize,
    input: &[Datum],
) -> Result<Move, AllocError>
    ensures { IfOk result (λ next. move_of next ≡ once (datum_of_value memo.now)
        (Visit 0 (fit_with_zeros count (map datum_of_value input.now)) memo_when_done) (Give [])) }
{
    match memo {
        Datum::Empty => visit(alloc, count, input),
        _ => Ok(Move::Give(Vec::new(alloc))),
    }
}

fn read_move(alloc: Global, memo: &Datum, input: &[Datum]) -> Result<Move, AllocError>
    ensures { IfOk result (λ next. move_of next ≡ once (datum_of_value memo.now) (Emit read_word memo_when_done)
        (Give (datum_at (map datum_of_value input.now) 0 ∷ []))) }
{
    match memo {
        Datum::Empty => Ok(Move::Emit(word(alloc, "read")?, memo_when_done())),
        _ => {
            let answer = datum_at(alloc, input, 0)?;
            Ok(Move::Give(one(alloc, answer)?))
        }
    }
}

fn print_move(alloc: Global, memo: &Datum, input: &[Datum]) -> Result<Move, AllocError>
    ensures { IfOk result (λ next. move_of next ≡ once (datum_of_value memo.now)
        (Emit (JoinOf print_word (datum_at (map datum_of_value input.now) 0)) memo_when_done) (Give [])) }
{
    match memo {
        Datum::Empty => {
            let printed = datum_at(alloc, input, 0)?;
            let effect = Datum::join(alloc, word(alloc, "print")?, printed)?;
            Ok(Move::Emit(effect, memo_when_done()))
        }
        _ => Ok(Move::Give(Vec::new(alloc))),
    }
}

// The datum of the first attribute, by default 0.
fn const_move(alloc: Global, attrs: &Attrs) -> Result<Move, AllocError>
    ensures { IfOk result (λ next. move_of next ≡ Give (content_of (first_attribute attrs.now) ∷ [])) }
{
    let datum = if attrs.is_empty() {
        Datum::Number(0)
    } else {
        Datum::of(alloc, attrs.get(0))?
    };
    Ok(Move::Give(one(alloc, datum)?))
}

// What is computed, or a trap.
fn give_or_trap(alloc: Global, number: Option<i64>) -> Result<Move, AllocError>
    ensures { IfOk result (λ next. move_of next ≡ give_or_trap number) }
{
    match number {
        Some(number) => Ok(Move::Give(one_number(alloc, number)?)),
        None => Ok(Move::Trap),
    }
}

fn add_move(alloc: Global, input: &[Datum]) -> Result<Move, AllocError>
    ensures { IfOk result (λ next. move_of next ≡ give_or_trap (known_sum_of
        (known_of (map Some (numbers_of (map datum_of_value input.now))) 0)
        (known_of (map Some (numbers_of (map datum_of_value input.now))) 1))) }
{
    give_or_trap(alloc, known_sum(known_at(input, 0), known_at(input, 1)))
}

fn mul_move(alloc: Global, input: &[Datum]) -> Result<Move, AllocError>
    ensures { IfOk result (λ next. move_of next ≡ give_or_trap (known_product_of
        (known_of (map Some (numbers_of (map datum_of_value input.now))) 0)
        (known_of (map Some (numbers_of (map datum_of_value input.now))) 1))) }
{
    give_or_trap(alloc, known_product(known_at(input, 0), known_at(input, 1)))
}

fn div_move(alloc: Global, input: &[Datum]) -> Result<Move, AllocError>
    ensures { IfOk result (λ next. move_of next ≡ give_or_trap (known_quotient_of
        (known_of (map Some (numbers_of (map datum_of_value input.now))) 0)
        (known_of (map Some (numbers_of (map datum_of_value input.now))) 1))) }
{
    give_or_trap(
        alloc,
        known_quotient(known_at(input, 0), known_at(input, 1)),
    )
}

// What a `pair` gives, as far as there are results.
fn pair_move(alloc: Global, results: usize) -> Result<Move, AllocError>
    ensures { IfOk result (λ next. move_of next ≡ Give (fit_or_empty_of results
        (NumberOf (pos 1) ∷ NumberOf (pos 2) ∷ []))) }
{
    let mut pair = one(alloc, Datum::Number(1))?;
    pair.push(Datum::Number(2))?;
    Ok(Move::Give(fit_or_empty(alloc, results, &pair)?))
}

// As many of the data from the first one on.
fn up_to(values: &[Datum], count: usize) -> &[Datum]
    ensures { result.now ≡ take count values.now }
{
    if count < values.len() {
        &values[..count]
    } else {
        values
    }
}

// The data behind so many.
fn behind(values: &[Datum], count: usize) -> &[Datum]
    ensures { result.now ≡ drop count values.now }
{
    if count < values.len() {
        &values[count..]
    } else {
        &[]
    }
}

// Of the values behind the condition of a `cbr` with so many operands, those that go along this edge.
fn values_along<'a>(attrs: &Attrs, operands: usize, edge: usize, input: &'a [Datum]) -> &'a [Datum]
    requires { edge < 2 }
    ensures { result.now ≡ values_of_edge (two_counts (first_count_of attrs.now) (operands - 1)) edge input.now }
{
    let all = operands.saturating_sub(1);
    let first = first_edge_count(attrs, all);
    let values = behind(input, 1);
    if edge == 0 {
        up_to(values, first)
    } else {
        up_to(behind(values, first), all - first)
    }
}

fn cbr_move(
    alloc: Global,
    attrs: &Attrs,
    operands: usize,
    input: &[Datum],
) -> Result<Move, AllocError>
    ensures { IfOk result (λ next. move_of next ≡ Goto (edge_taken_by (map datum_of_value input.now))
        (values_of_edge (two_counts (first_count_of attrs.now) (operands - 1))
        (edge_taken_by (map datum_of_value input.now)) (map datum_of_value input.now))) }
{
    let edge = edge_taken(input);
    let values = values_along(attrs, operands, edge, input);
    Ok(Move::Goto(edge, all_copies(alloc, values)?))
}

fn fork_move(
    alloc: Global,
    ctx: &Context,
    op: Ptr<Operation>,
    input: &[Datum],
) -> Result<Move, AllocError>
    requires { IsLive ctx.now.tree op }
    ensures { IfOk result (λ next. move_of next ≡ Goto (edge_taken_by (map datum_of_value input.now))
        (replicate (slice_index_or (map (λ b. count_arguments (block_at ctx.now.tree b))
        (successors_of ctx.now.tree op)) (edge_taken_by (map datum_of_value input.now)) 0)
        (datum_at (map datum_of_value input.now) 0))) }
{
    let edge = edge_taken(input);
    let count = num_target_argument(ctx, op, edge);
    let passed = datum_at(alloc, input, 0)?;
    Ok(Move::Goto(edge, copies_of(alloc, &passed, count)?))
}

// The move of an operation of this kind.
fn act(
    alloc: Global,
    ctx: &Context,
    op: Ptr<Operation>,
    kind: BenchKind,
    memo: &Datum,
    input: &[Datum],
) -> Result<Move, AllocError>
    requires live { IsLive ctx.now.tree op }
    requires kind { ReadsHead (λ h. kind_of h.kind) ctx.now.tree op (Some kind) }
    ensures { IfOk result (λ next. (o : OperationRecord) → op_at ctx.now.tree op ≡ Some o → move_of next ≡
        act_of bench_value (bench_role kind) (shape_of bench ctx.now.tree o) (datum_of_value memo.now)
        (map datum_of_value input.now)) }
{
    match kind {
        BenchKind::Mod => Ok(Move::Give(Vec::new(alloc))),
        BenchKind::Func => func_move(alloc, memo, num_entry_argument(ctx, op, 0), input),
        BenchKind::Const => const_move(alloc, &op.head(ctx).attrs),
        BenchKind::Add => add_move(alloc, input),
        BenchKind::Mul => mul_move(alloc, input),
        BenchKind::Div => div_move(alloc, input),
        BenchKind::Read => read_move(alloc, memo, input),
        BenchKind::Print => print_move(alloc, memo, input),
        BenchKind::Pair => pair_move(alloc, op.num_result(ctx)),
        BenchKind::Sink => pair_move(alloc, op.num_result(ctx)),
        BenchKind::Scope => scope_move(alloc, memo, num_entry_argument(ctx, op, 0), input),
        BenchKind::Box => Ok(Move::Give(Vec::new(alloc))),
        BenchKind::Br => Ok(Move::Goto(0, all_copies(alloc, input)?)),
        BenchKind::Cbr => cbr_move(alloc, &op.head(ctx).attrs, op.num_operand(ctx), input),
        BenchKind::Ret => Ok(Move::Leave(all_copies(alloc, input)?)),
        BenchKind::Fork => fork_move(alloc, ctx, op, input),
    }
}

impl Evaluate for Bench {
    fn next_move(
        alloc: Global,
        ctx: &Context,
        op: Ptr<Operation>,
        memo: &Datum,
        input: &[Datum],
    ) -> Result<Move, AllocError> {
        match kind_at(op, ctx) {
            Some(kind) => act(alloc, ctx, op, kind, memo, input),
            None => Ok(Move::Trap),
        }
    }
}
