//! The moves of small dialects, where they act by their own tables.
ghost use Rattle.std.specs.Prelude.{◌≡◌, ◌++◌, pos, int_lt, map, drop, IfOk};
ghost use Rattle.pliron_laws.specs.Datum.{Give, Leave};
ghost use Rattle.pliron_evaluator.specs.Evaluator.{datum_of_value, move_of};
ghost use Rattle.pliron_dialect.specs.Roles.{is_zero, chain_of as chain_in};
ghost use Rattle.pliron_role_runs.specs.Numbers.{condition_of, edge_by_condition};
ghost use Rattle.pliron_role_runs.specs.Visits.{first_or_zero, visit_of, visit_keeping as visit_with, ask_world as ask_by};
ghost use Rattle.pliron_role_runs.specs.Visits.{data_of_chain as data_in, kept_operands, stage_of, last_answer, turn_move};
ghost use Rattle.pliron_role_runs.specs.Visits.{turns_left as left_of, again_if, counted_loop as counted_by};
ghost use Rattle.pliron_role_runs.specs.OwnMoves.{shape_of_counts, turn_of};
ghost use Rattle.pliron_dialect_bench.specs.BenchMoves.{once, fit_with_zeros};

use crate::counts::Counts;
use crate::data::all_copies;
use crate::numbers::{edge_of, number_of, sum};
use pliron_evaluator::evaluator::{Datum, Move};
use std::alloc::{AllocError, Global};

/// The first of the data as a number, by default 0. Cost: constant.
pub fn condition(input: &[Datum]) -> i64
    ensures { result ≡ condition_of (map datum_of_value input.now) }
{
    if input.is_empty() {
        0
    } else {
        number_of(&input[0])
    }
}

/// Whether the first of the data counts as 0. Cost: constant.
pub fn is_over(input: &[Datum]) -> bool
    ensures { result ≡ is_zero (condition_of (map datum_of_value input.now)) }
{
    condition(input) == 0
}

/// The second region or edge where the first of the data counts as 0, else the first one. Cost: constant.
pub fn choice_by_input(input: &[Datum]) -> usize
    ensures { result ≡ edge_by_condition (condition_of (map datum_of_value input.now)) }
{
    edge_of(condition(input))
}

/// All but the first of the data. Cost: constant.
pub fn behind_first(input: &[Datum]) -> &[Datum]
    ensures { map datum_of_value result.now ≡ drop 1 (map datum_of_value input.now) }
{
    if input.is_empty() { input } else { &input[1..] }
}

/// The datum at this index, where a missing one is 0. Errors: allocation failure. Cost: that of a copy.
pub fn datum_or_zero(alloc: Global, input: &[Datum], i: usize) -> Result<Datum, AllocError>
    ensures { IfOk result (λ datum. datum_of_value datum ≡ first_or_zero (map datum_of_value (drop i input.now))) }
{
    if i < input.len() {
        input[i].copy(alloc)
    } else {
        Ok(Datum::Number(0))
    }
}

// So many of the data: cut, or filled with 0.
fn fitted_to(alloc: Global, count: usize, input: &[Datum]) -> Result<Vec<Datum>, AllocError>
    ensures { IfOk result (λ values. map datum_of_value values.items ≡ fit_with_zeros count
        (map datum_of_value input.now)) }
{
    let mut data = Vec::new(alloc);
    for i in 0..count {
        data.push(datum_or_zero(alloc, input, i)?)?;
    }
    Ok(data)
}

/// Gives these values, as far as there are results. Errors: allocation failure. Cost: that of copies.
pub fn give(alloc: Global, counts: &Counts, values: &[Datum]) -> Result<Move, AllocError>
    ensures { IfOk result (λ next. move_of next ≡ Give (fit_with_zeros counts.now.results
        (map datum_of_value values.now))) }
{
    Ok(Move::Give(fitted_to(alloc, counts.results, values)?))
}

/// A visit of the region with this index. It passes these values as far as the region's entry block has arguments,
/// and keeps this memo. Errors: allocation failure. Cost: that of copies.
pub fn visit_keeping(
    alloc: Global,
    counts: &Counts,
    region: usize,
    values: &[Datum],
    memo: Datum,
) -> Result<Move, AllocError>
    ensures { IfOk result (λ next. move_of next ≡ visit_with region (shape_of_counts counts.now)
        (map datum_of_value values.now) (datum_of_value memo)) }
{
    let passed = fitted_to(alloc, counts.entry_argument(region), values)?;
    Ok(Move::Visit(region, passed, memo))
}

/// A visit of the region with this index. It passes these values as far as the region's entry block has arguments; the
/// memo is 1 afterwards. Errors: allocation failure. Cost: that of copies.
pub fn visit(
    alloc: Global,
    counts: &Counts,
    region: usize,
    values: &[Datum],
) -> Result<Move, AllocError>
    ensures { IfOk result (λ next. move_of next ≡ visit_of region (shape_of_counts counts.now)
        (map datum_of_value values.now)) }
{
    visit_keeping(alloc, counts, region, values, Datum::Number(1))
}

/// A visit, and then a leave with what it gave. The region has this index, and the input is passed. Errors: allocation
/// failure. Cost: that of copies.
pub fn visit_and_leave(
    alloc: Global,
    counts: &Counts,
    region: usize,
    memo: &Datum,
    input: &[Datum],
) -> Result<Move, AllocError>
    ensures { IfOk result (λ next. move_of next ≡ once (datum_of_value memo.now)
        (visit_of region (shape_of_counts counts.now) (map datum_of_value input.now))
        (Leave (map datum_of_value input.now))) }
{
    match memo {
        Datum::Empty => visit(alloc, counts, region, input),
        _ => Ok(Move::Leave(all_copies(alloc, input)?)),
    }
}

// The data of a chain, behind those that are there.
fn push_chain(alloc: Global, chain: &Datum, values: &mut Vec<Datum>) -> Result<(), AllocError>
    ensures { IfOk result (λ u. map datum_of_value values.new.items ≡ map datum_of_value values.old.items
        ++ data_in (datum_of_value chain.now)) }
{
    match chain {
        Datum::Join(first, others) => {
            values.push(first.copy(alloc)?)?;
            push_chain(alloc, others, values)
        }
        _ => Ok(()),
    }
}

/// The data of a chain. Errors: allocation failure. Cost: that of copies.
pub fn data_of_chain(alloc: Global, chain: &Datum) -> Result<Vec<Datum>, AllocError>
    ensures { IfOk result (λ values. map datum_of_value values.items ≡ data_in (datum_of_value chain.now)) }
{
    let mut values = Vec::new(alloc);
    push_chain(alloc, chain, &mut values)?;
    Ok(values)
}

/// The data as a chain, by which one datum keeps them. Errors: allocation failure. Cost: that of copies.
pub fn chain_of(alloc: Global, values: &[Datum]) -> Result<Datum, AllocError>
    ensures { IfOk result (λ chain. datum_of_value chain ≡ chain_in (map datum_of_value values.now)) }
{
    let mut chain = Datum::Empty;
    for i in 0..values.len() {
        let first = values[values.len() - 1 - i].copy(alloc)?;
        chain = Datum::join(alloc, first, chain)?;
    }
    Ok(chain)
}

/// An effect and its answer: the world is asked by an effect that has this name and the operands, and what it answers
/// is the first result, where others are 0. Errors: allocation failure. Cost: that of copies.
pub fn ask_world(
    alloc: Global,
    counts: &Counts,
    name: i64,
    memo: &Datum,
    input: &[Datum],
) -> Result<Move, AllocError>
    ensures { IfOk result (λ next. move_of next ≡ ask_by name (shape_of_counts counts.now) (datum_of_value memo.now)
        (map datum_of_value input.now)) }
{
    match memo {
        Datum::Empty => {
            let operands = chain_of(alloc, input)?;
            let effect = Datum::join(alloc, Datum::Number(name as i128), operands)?;
            Ok(Move::Emit(effect, Datum::Number(1)))
        }
        _ => give(alloc, counts, input),
    }
}

/// A turn of a loop. Each visit passes the same operands, and then other data.
#[derive(Debug, Drop)]
pub enum Turn {
    /// The region with this index is visited, with these data behind the operands; then comes this stage.
    Again(usize, Vec<Datum>, Datum),
    /// The results are given.
    Over(Vec<Datum>),
}

// The data from this place on.
fn from_place(input: &[Datum], place: usize) -> &[Datum]
    ensures { map datum_of_value result.now ≡ drop place (map datum_of_value input.now) }
{
    if place < input.len() {
        &input[place..]
    } else {
        &input[..0]
    }
}

// The operands from this place on, and then the others.
fn passed_from(
    alloc: Global,
    place: usize,
    operands: &[Datum],
    others: &[Datum],
) -> Result<Vec<Datum>, AllocError>
    ensures { IfOk result (λ passed. map datum_of_value passed.items ≡ drop place (map datum_of_value operands.now)
        ++ map datum_of_value others.now) }
{
    let mut passed = all_copies(alloc, from_place(operands, place))?;
    for datum in others {
        passed.push(datum.copy(alloc)?)?;
    }
    Ok(passed)
}

impl Turn {
    /// The operands: the input at first, and then what the memo keeps. Errors: allocation failure. Cost: that of
    /// copies.
    pub fn operands(alloc: Global, memo: &Datum, input: &[Datum]) -> Result<Vec<Datum>, AllocError>
        ensures { IfOk result (λ operands. map datum_of_value operands.items ≡ kept_operands (datum_of_value memo.now)
            (map datum_of_value input.now)) }
    {
        match memo {
            Datum::Empty => all_copies(alloc, input),
            Datum::Join(_, kept) => data_of_chain(alloc, kept),
            _ => Ok(Vec::new(alloc)),
        }
    }

    /// What the last visit gave, at first nothing. Cost: constant.
    pub fn answer<'a>(memo: &Datum, input: &'a [Datum]) -> &'a [Datum]
        ensures { map datum_of_value result.now ≡ last_answer (datum_of_value memo.now)
            (map datum_of_value input.now) }
    {
        match memo {
            Datum::Join(_, _) => input,
            _ => &input[..0],
        }
    }

    /// The move: a visit passes the operands from this place on, and then what the turn says, cut or filled with 0; its
    /// memo keeps the operands. Errors: allocation failure. Cost: that of copies.
    pub fn into_move(
        self,
        alloc: Global,
        counts: &Counts,
        place: usize,
        operands: &[Datum],
    ) -> Result<Move, AllocError>
        ensures { IfOk result (λ next. move_of next ≡ turn_move place (shape_of_counts counts.now)
            (map datum_of_value operands.now) (turn_of self)) }
    {
        match self {
            Turn::Again(region, others, stage) => {
                let values = passed_from(alloc, place, operands, &others)?;
                let kept = chain_of(alloc, operands)?;
                let memo = Datum::join(alloc, stage, kept)?;
                visit_keeping(alloc, counts, region, &values, memo)
            }
            Turn::Over(results) => give(alloc, counts, &results),
        }
    }
}

// How many turns are left at this stage of a counted loop.
fn turns_at(operands: &[Datum], stage: &Datum) -> i64
    ensures { result ≡ left_of (map datum_of_value operands.now) (datum_of_value stage.now) }
{
    match stage {
        Datum::Empty => condition(operands),
        _ => number_of(stage),
    }
}

// How many turns of a counted loop are left.
fn turns_left(operands: &[Datum], memo: &Datum) -> i64
    ensures { result ≡ left_of (map datum_of_value operands.now) (stage_of (datum_of_value memo.now)) }
{
    match memo {
        Datum::Join(stage, _) => turns_at(operands, stage),
        _ => condition(operands),
    }
}

// The turn of a counted loop with so many left.
fn counted_turn(alloc: Global, left: i64, answer: &[Datum]) -> Result<Turn, AllocError>
    ensures { IfOk result (λ turn. turn_of turn ≡ again_if (int_lt (pos 0) left) left (map datum_of_value answer.now)) }
{
    let data = all_copies(alloc, answer)?;
    if 0 < left {
        let stage = Datum::Number(sum(left, -1) as i128);
        Ok(Turn::Again(0, data, stage))
    } else {
        Ok(Turn::Over(data))
    }
}

/// A counted loop: the first operand says how often the region with index 0 is visited, with the other operands and
/// then what the last visit gave; then that is given. Errors: allocation failure. Cost: that of copies.
pub fn counted_loop(
    alloc: Global,
    counts: &Counts,
    memo: &Datum,
    input: &[Datum],
) -> Result<Move, AllocError>
    ensures { IfOk result (λ next. move_of next ≡ counted_by (shape_of_counts counts.now) (datum_of_value memo.now)
        (map datum_of_value input.now)) }
{
    let operands = Turn::operands(alloc, memo, input)?;
    let turn = counted_turn(
        alloc,
        turns_left(&operands, memo),
        Turn::answer(memo, input),
    )?;
    turn.into_move(alloc, counts, 1, &operands)
}
