//! The moves that the world decides.
ghost use Rattle.std.specs.Prelude.{◌≡◌, ◌++◌, pos, map, slice_index_or, IfOk};
ghost use Rattle.std.specs.Option.{option_map};
ghost use Rattle.pliron_laws.specs.Datum.{datum_of as content_of, Join, Give, Visit, Goto, Leave, Emit};
ghost use Rattle.pliron_dialect.specs.Roles.{data_in, effect_of as effect_in, first_datum, memo_after_effect, memo_of_unknown_regions};
ghost use Rattle.pliron_dialect.specs.Roles.{effect_act, region_act, region_answer as region_answered, fork_act, fork_answer as fork_answered, arguments_at, fit_data};
ghost use Rattle.pliron_evaluator.specs.Evaluator.{datum_of_value, move_of};
ghost use Rattle.pliron_role_runs.specs.RoleRuns.{shape_by};
ghost use Rattle.pliron_role_runs.specs.OwnMoves.{shape_of_counts};
ghost use Rattle.pliron_role_runs.specs.WorldMoves.{region_chosen, fork_chosen};

use crate::counts::Counts;
use crate::data::fitted_to;
use crate::own_moves::chain_of;
use pliron_core::{Attrs, Head, Text};
use pliron_evaluator::evaluator::{Datum, Move};
use std::alloc::{AllocError, Global};

// The contents of the attributes.
fn contents_of(alloc: Global, attrs: &Attrs) -> Result<Vec<Datum>, AllocError>
    ensures { IfOk result (λ contents. map datum_of_value contents.items ≡ map content_of attrs.now) }
{
    let mut contents = Vec::new(alloc);
    for i in 0..attrs.len() {
        contents.push(Datum::of(alloc, attrs.get(i))?)?;
    }
    Ok(contents)
}

/// What the world is given of an operation with this head and these operands. Errors: allocation failure. Cost: that of
/// copies.
pub fn effect_of(alloc: Global, head: &Head, input: &[Datum]) -> Result<Datum, AllocError>
    ensures { IfOk result (λ effect. datum_of_value effect ≡ effect_in head.now (map datum_of_value input.now)) }
{
    let contents = contents_of(alloc, &head.attrs)?;
    let said = chain_of(alloc, &contents)?;
    let operands = chain_of(alloc, input)?;
    let rest = Datum::join(alloc, said, operands)?;
    Datum::join(alloc, Datum::Number(head.kind as i128), rest)
}

// The world is asked.
fn ask(alloc: Global, head: &Head, input: &[Datum]) -> Result<Move, AllocError>
    ensures { IfOk result (λ next. move_of next ≡ Emit (effect_in head.now (map datum_of_value input.now))
        memo_after_effect) }
{
    Ok(Move::Emit(effect_of(alloc, head, input)?, Datum::Number(1)))
}

// The data of a chain, behind those that are there.
fn push_data(alloc: Global, chain: &Datum, values: &mut Vec<Datum>) -> Result<(), AllocError>
    ensures { IfOk result (λ u. map datum_of_value values.new.items ≡ map datum_of_value values.old.items
        ++ data_in (datum_of_value chain.now)) }
{
    match chain {
        Datum::Join(first, others) => {
            values.push(first.copy(alloc)?)?;
            push_data(alloc, others, values)
        }
        _ => Ok(()),
    }
}

// The data of a chain.
fn data_of(alloc: Global, chain: &Datum) -> Result<Vec<Datum>, AllocError>
    ensures { IfOk result (λ values. map datum_of_value values.items ≡ data_in (datum_of_value chain.now)) }
{
    let mut values = Vec::new(alloc);
    push_data(alloc, chain, &mut values)?;
    Ok(values)
}

// So many data of a chain.
fn fitted_data(alloc: Global, count: usize, chain: &Datum) -> Result<Vec<Datum>, AllocError>
    ensures { IfOk result (λ values. map datum_of_value values.items ≡ fit_data count
        (data_in (datum_of_value chain.now))) }
{
    let values = data_of(alloc, chain)?;
    fitted_to(alloc, count, &values)
}

// The first of the data, by default nothing.
fn first_of(alloc: Global, input: &[Datum]) -> Result<Datum, AllocError>
    ensures { IfOk result (λ datum. datum_of_value datum ≡ first_datum (map datum_of_value input.now)) }
{
    if input.is_empty() {
        Ok(Datum::Empty)
    } else {
        input[0].copy(alloc)
    }
}

// Gives so many data of a chain.
fn give_data(alloc: Global, counts: &Counts, chain: &Datum) -> Result<Move, AllocError>
    ensures { IfOk result (λ next. move_of next ≡ Give (fit_data counts.now.results
        (data_in (datum_of_value chain.now)))) }
{
    Ok(Move::Give(fitted_data(alloc, counts.results, chain)?))
}

/// The move of what asks the world for its results. Errors: allocation failure. Cost: that of copies.
pub fn effect_move(
    alloc: Global,
    head: &Head,
    counts: &Counts,
    memo: &Datum,
    input: &[Datum],
) -> Result<Move, AllocError>
    ensures { IfOk result (λ next. move_of next ≡ effect_act (shape_by head.now counts.now) (datum_of_value memo.now)
        (map datum_of_value input.now)) }
{
    match memo {
        Datum::Empty => ask(alloc, head, input),
        _ => give_data(alloc, counts, &first_of(alloc, input)?),
    }
}

// The number as an index. No region and no block has one above 64 bits: where such a one is asked for, memory is refused.
fn index_of(number: i128) -> Result<usize, AllocError>
    ensures { IfOk result (λ index. pos index ≡ number) }
{
    if 0 <= number && number <= 18_446_744_073_709_551_615 {
        Ok(number as usize)
    } else {
        Err(AllocError)
    }
}

// A visit of the region with this index, with as many data of a chain as its entry has arguments.
fn visit_with(
    alloc: Global,
    counts: &Counts,
    region: usize,
    chain: &Datum,
) -> Result<Move, AllocError>
    ensures { IfOk result (λ next. move_of next ≡ Visit region (fit_data
        (slice_index_or counts.now.entry_arguments.items region 0) (data_in (datum_of_value chain.now)))
        memo_of_unknown_regions) }
{
    let values = fitted_data(alloc, counts.entry_argument(region), chain)?;
    Ok(Move::Visit(region, values, Datum::Text(Text::new(String::new(alloc)))))
}

// What the world chose for an operation with regions: a region, or an end with these data.
fn region_choice(
    alloc: Global,
    counts: &Counts,
    number: i128,
    chain: &Datum,
) -> Result<Move, AllocError>
    ensures { IfOk result (λ next. move_of next ≡ region_chosen counts.now.entry_arguments.items counts.now.results
        number (datum_of_value chain.now)) }
{
    if number < 0 {
        give_data(alloc, counts, chain)
    } else {
        visit_with(alloc, counts, index_of(number)?, chain)
    }
}

// What comes of an answer to an operation with regions that is of these two.
fn region_joined(
    alloc: Global,
    counts: &Counts,
    first: &Datum,
    others: &Datum,
    answer: &Datum,
) -> Result<Move, AllocError>
    requires { datum_of_value answer.now ≡ Join (datum_of_value first.now) (datum_of_value others.now) }
    ensures { IfOk result (λ next. move_of next ≡ region_answered (shape_of_counts counts.now)
        (Join (datum_of_value first.now) (datum_of_value others.now))) }
{
    match first {
        Datum::Number(number) => region_choice(alloc, counts, *number, others),
        _ => give_data(alloc, counts, answer),
    }
}

// What comes of the world's answer to an operation with regions.
fn region_answer(alloc: Global, counts: &Counts, answer: &Datum) -> Result<Move, AllocError>
    ensures { IfOk result (λ next. move_of next ≡ region_answered (shape_of_counts counts.now)
        (datum_of_value answer.now)) }
{
    match answer {
        Datum::Join(first, others) => region_joined(alloc, counts, first, others, answer),
        _ => give_data(alloc, counts, &Datum::Empty),
    }
}

/// The move of an operation about whose regions nothing is known. Errors: allocation failure. Cost: that of copies.
pub fn region_move(
    alloc: Global,
    head: &Head,
    counts: &Counts,
    memo: &Datum,
    input: &[Datum],
) -> Result<Move, AllocError>
    ensures { IfOk result (λ next. move_of next ≡ region_act (shape_by head.now counts.now) (datum_of_value memo.now)
        (map datum_of_value input.now)) }
{
    match memo {
        Datum::Empty => ask(alloc, head, input),
        Datum::Number(_) => region_answer(alloc, counts, &first_of(alloc, input)?),
        Datum::Text(_) => Ok(Move::Emit(chain_of(alloc, input)?, Datum::Number(1))),
        Datum::Join(_, _) => Ok(Move::Trap),
    }
}

// How many arguments the successor with this index has; 0 where there is none, and of a branch.
fn target_argument(counts: &Counts, successor: usize) -> usize
    ensures { result ≡ arguments_at (option_map (λ each. each.items) counts.now.target_arguments) successor }
{
    match &counts.target_arguments {
        Some(each) => {
            if successor < each.len() {
                each[successor]
            } else {
                0
            }
        }
        None => 0,
    }
}

// The visit ends with the data of a chain.
fn leave_with(alloc: Global, chain: &Datum) -> Result<Move, AllocError>
    ensures { IfOk result (λ next. move_of next ≡ Leave (data_in (datum_of_value chain.now))) }
{
    Ok(Move::Leave(data_of(alloc, chain)?))
}

// What the world chose for a terminator: a successor, or the end of the visit.
fn fork_choice(
    alloc: Global,
    counts: &Counts,
    number: i128,
    answer: &Datum,
    chain: &Datum,
) -> Result<Move, AllocError>
    ensures { IfOk result (λ next. move_of next ≡ fork_chosen
        (option_map (λ each. each.items) counts.now.target_arguments) number (datum_of_value answer.now)
        (datum_of_value chain.now)) }
{
    if number < 0 {
        return leave_with(alloc, answer);
    }
    let successor = index_of(number)?;
    let values = fitted_data(alloc, target_argument(counts, successor), chain)?;
    Ok(Move::Goto(successor, values))
}

// What comes of an answer to a terminator that is of these two.
fn fork_joined(
    alloc: Global,
    counts: &Counts,
    first: &Datum,
    others: &Datum,
    answer: &Datum,
) -> Result<Move, AllocError>
    requires { datum_of_value answer.now ≡ Join (datum_of_value first.now) (datum_of_value others.now) }
    ensures { IfOk result (λ next. move_of next ≡ fork_answered (shape_of_counts counts.now)
        (Join (datum_of_value first.now) (datum_of_value others.now))) }
{
    match first {
        Datum::Number(number) => fork_choice(alloc, counts, *number, answer, others),
        _ => leave_with(alloc, answer),
    }
}

// What comes of the world's answer to a terminator.
fn fork_answer(alloc: Global, counts: &Counts, answer: &Datum) -> Result<Move, AllocError>
    ensures { IfOk result (λ next. move_of next ≡ fork_answered (shape_of_counts counts.now)
        (datum_of_value answer.now)) }
{
    match answer {
        Datum::Join(first, others) => fork_joined(alloc, counts, first, others, answer),
        _ => leave_with(alloc, answer),
    }
}

/// The move of a terminator of which nothing is known. Errors: allocation failure. Cost: that of copies.
pub fn fork_move(
    alloc: Global,
    head: &Head,
    counts: &Counts,
    memo: &Datum,
    input: &[Datum],
) -> Result<Move, AllocError>
    ensures { IfOk result (λ next. move_of next ≡ fork_act (shape_by head.now counts.now) (datum_of_value memo.now)
        (map datum_of_value input.now)) }
{
    match memo {
        Datum::Empty => ask(alloc, head, input),
        _ => fork_answer(alloc, counts, &first_of(alloc, input)?),
    }
}
