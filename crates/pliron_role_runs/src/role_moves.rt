//! The moves of dialects by roles.
ghost use Rattle.std.specs.Prelude.{◌≡◌, [], ◌∷◌, map, take, drop, IfOk, IfSome};
ghost use Rattle.std.specs.Option.{option_or};
ghost use Rattle.pliron_core.specs.Tree.{IsLive};
ghost use Rattle.pliron_laws.specs.Datum.{Number as NumberOf, Give, Goto, datum_of as content_of};
ghost use Rattle.pliron_laws.specs.Answers.{ReadsShape};
ghost use Rattle.pliron_dialect.specs.declared.form.Otherwise.TheVariants.{Says};
ghost use Rattle.pliron_dialect.specs.Identities.{given_in};
ghost use Rattle.pliron_dialect.specs.Counted.{counts_by, counted_attributes};
ghost use Rattle.pliron_dialect.specs.Roles.{role_at, allows_at, meaning_by, first_attribute, fit_data, nth_datum as nth_in, numbers_of as numbers_in};
ghost use Rattle.pliron_dialect.specs.Roles.{first_number as first_in, complete, knows_in, identity_in, truth_in, choice_in, give_or_trap, folds_to};
ghost use Rattle.pliron_dialect.specs.Roles.{operands_picked, index_in as index_of, edge_or, act_of};
ghost use Rattle.pliron_evaluator.specs.Evaluator.{datum_of_value, move_of};
ghost use Rattle.pliron_role_runs.specs.RoleRuns.{shape_by, branch_to};

use crate::counts::{Counts, counts_at};
use crate::data::{all_copies, first_number, fitted_to, known_numbers, nth_datum, one};
use crate::edges::{head_without_counts, values_along};
use crate::identities::{number_given, place_left};
use crate::interprets::Interprets;
use pliron_core::{Attrs, Context, Head, Operation, Ptr};
use pliron_dialect::{Counting, Form, Otherwise, Roles};
use pliron_evaluator::evaluator::{Datum, Evaluate, Move};
use pliron_laws::HasMeaning;
use std::alloc::{AllocError, Global};
use std::marker::PhantomData;

/// The dialect `ByRoles` of these kinds, to be run.
pub struct RunByRoles<K>(PhantomData<K>);

impl<K: Interprets> HasMeaning for RunByRoles<K> {
    ghost meaning = { meaning_by K.tables.value (role_at K.tables) (allows_at K.tables) };
}

// The datum of the first attribute, by default 0.
fn constant_move(alloc: Global, attrs: &Attrs) -> Result<Move, AllocError>
    ensures { IfOk result (λ next. move_of next ≡ Give (content_of (first_attribute attrs.now) ∷ [])) }
{
    let datum = if attrs.is_empty() {
        Datum::Number(0)
    } else {
        Datum::of(alloc, attrs.get(0))?
    };
    Ok(Move::Give(one(alloc, datum)?))
}

// This number.
fn number_move(alloc: Global, number: i128) -> Result<Move, AllocError>
    ensures { IfOk result (λ next. move_of next ≡ Give (NumberOf number ∷ [])) }
{
    Ok(Move::Give(one(alloc, Datum::Number(number))?))
}

// The operand at this place.
fn operand_move(alloc: Global, input: &[Datum], place: usize) -> Result<Move, AllocError>
    ensures { IfOk result (λ next. move_of next ≡ Give (nth_in (map datum_of_value input.now) place ∷ [])) }
{
    let datum = nth_datum(alloc, input, place)?;
    Ok(Move::Give(one(alloc, datum)?))
}

// So many data of those that the interpretation gives.
fn given_move<K: Interprets>(
    alloc: Global,
    head: &Head,
    count: usize,
    input: &[Datum],
) -> Result<Option<Move>, AllocError>
    ensures { IfOk result (λ found. IfSome found (λ next. move_of next ≡ Give
        (fit_data count (K.tables.value head.now (map datum_of_value input.now))))) }
{
    match K::interpret(alloc, head, input)? {
        Some(data) => Ok(Some(Move::Give(fitted_to(alloc, count, &data)?))),
        None => Ok(None),
    }
}

// The number that the kind computes of the data, where there is one.
fn number_computed<K: Roles>(
    alloc: Global,
    kind: K,
    head: &Head,
    input: &[Datum],
) -> Result<Option<i128>, AllocError>
    ensures { IfOk result (λ number. number ≡ complete (knows_in (K.tables.role_of kind)) head.now
        (numbers_in (map datum_of_value input.now))) }
{
    let numbers = known_numbers(alloc, input)?;
    Ok(kind.fold_numbers(head, &numbers))
}

// What is computed of the data, or else a trap.
fn computed_move<K: Roles>(
    alloc: Global,
    kind: K,
    head: &Head,
    input: &[Datum],
) -> Result<Move, AllocError>
    ensures { IfOk result (λ next. move_of next ≡ give_or_trap (complete (knows_in (K.tables.role_of kind)) head.now
        (numbers_in (map datum_of_value input.now)))) }
{
    match number_computed(alloc, kind, head, input)? {
        Some(number) => number_move(alloc, number),
        None => Ok(Move::Trap),
    }
}

// The number that the identity gives, else the one that is computed.
fn number_said<K: Roles>(
    alloc: Global,
    kind: K,
    head: &Head,
    input: &[Datum],
) -> Result<Option<i128>, AllocError>
    ensures { IfOk result (λ number. number ≡ option_or (given_in (identity_in (K.tables.role_of kind) head.now)
        (map datum_of_value input.now)) (complete (knows_in (K.tables.role_of kind)) head.now
        (numbers_in (map datum_of_value input.now)))) }
{
    match number_given(kind.identity(head), input) {
        Some(number) => Ok(Some(number)),
        None => number_computed(alloc, kind, head, input),
    }
}

// The operand that is left, the number that is given or computed, else what the interpretation gives.
fn said_move<K: Interprets>(
    alloc: Global,
    kind: K,
    head: &Head,
    input: &[Datum],
) -> Result<Option<Move>, AllocError>
    ensures { IfOk result (λ found. IfSome found (λ next. move_of next ≡ folds_to Says K.tables.value head.now
        (identity_in (K.tables.role_of kind) head.now) (complete (knows_in (K.tables.role_of kind)) head.now)
        (map datum_of_value input.now))) }
{
    if let Some(place) = place_left(kind.identity(head), input) {
        return Ok(Some(operand_move(alloc, input, place)?));
    }
    match number_said(alloc, kind, head, input)? {
        Some(number) => Ok(Some(number_move(alloc, number)?)),
        None => given_move::<K>(alloc, head, 1, input),
    }
}

// What the kind computes of the data.
fn fold_move<K: Interprets>(
    alloc: Global,
    kind: K,
    otherwise: Otherwise,
    head: &Head,
    input: &[Datum],
) -> Result<Option<Move>, AllocError>
    ensures { IfOk result (λ found. IfSome found (λ next. move_of next ≡ folds_to otherwise K.tables.value head.now
        (identity_in (K.tables.role_of kind) head.now) (complete (knows_in (K.tables.role_of kind)) head.now)
        (map datum_of_value input.now))) }
{
    match otherwise {
        Otherwise::Says => said_move(alloc, kind, head, input),
        Otherwise::Never => Ok(Some(computed_move(alloc, kind, head, input)?)),
        Otherwise::Traps => Ok(Some(computed_move(alloc, kind, head, input)?)),
    }
}

// The operand that is picked, else what the interpretation gives.
fn picked_move<K: Interprets>(
    alloc: Global,
    kind: K,
    head: &Head,
    input: &[Datum],
) -> Result<Option<Move>, AllocError>
    ensures { IfOk result (λ found. IfSome found (λ next. move_of next ≡ Give (operands_picked K.tables.value head.now
        (map datum_of_value input.now) (truth_in (K.tables.role_of kind) (first_in (map datum_of_value input.now)))))) }
{
    match kind.picks(first_number(input)) {
        Some(true) => Ok(Some(operand_move(alloc, input, 1)?)),
        Some(false) => Ok(Some(operand_move(alloc, input, 2)?)),
        None => given_move::<K>(alloc, head, 1, input),
    }
}

// The number as an index, where it is one of 64 bits.
fn index_in(number: i128) -> Option<usize>
    ensures { IfSome result (λ index. index ≡ index_of number) }
{
    if number < 0 {
        Some(0)
    } else if number <= 18_446_744_073_709_551_615 {
        Some(number as usize)
    } else {
        None
    }
}

// The edge that the interpretation gives by the first of the data.
fn edge_given<K: Interprets>(
    alloc: Global,
    counting: Counting,
    head: &Head,
    edges: usize,
    input: &[Datum],
) -> Result<Option<usize>, AllocError>
    ensures { IfOk result (λ found. IfSome found (λ edge. edge ≡ index_of (first_in (K.tables.value
        (record head.now { attrs = drop (counted_attributes counting edges) head.now.attrs })
        (take 1 (map datum_of_value input.now)))))) }
{
    let head = head_without_counts(alloc, counting, head, edges)?;
    match K::interpret(alloc, &head, first_alone(input))? {
        Some(data) => Ok(index_in(first_number(&data))),
        None => Ok(None),
    }
}

// The first of the data alone.
fn first_alone(input: &[Datum]) -> &[Datum]
    ensures { map datum_of_value result.now ≡ take 1 (map datum_of_value input.now) }
{
    if input.is_empty() { input } else { &input[..1] }
}

// The edge that a branch takes: the one that its table has for the first of the data, else the one that the
// interpretation gives.
fn edge_taken<K: Interprets>(
    alloc: Global,
    kind: K,
    counting: Counting,
    head: &Head,
    edges: usize,
    input: &[Datum],
) -> Result<Option<usize>, AllocError>
    ensures { IfOk result (λ found. IfSome found (λ edge. edge ≡ edge_or K.tables.value
        (record head.now { attrs = drop (counted_attributes counting edges) head.now.attrs })
        (take 1 (map datum_of_value input.now))
        (choice_in (K.tables.role_of kind) head.now edges (first_in (map datum_of_value input.now))))) }
{
    match kind.choose_edge(head, edges, first_number(input)) {
        Some(edge) => Ok(Some(edge)),
        None => edge_given::<K>(alloc, counting, head, edges, input),
    }
}

// The jump along that edge.
fn branch_move<K: Interprets>(
    alloc: Global,
    kind: K,
    counting: Counting,
    head: &Head,
    counts: &Counts,
    input: &[Datum],
) -> Result<Option<Move>, AllocError>
    ensures { IfOk result (λ found. IfSome found (λ next. move_of next ≡ branch_to (counts_by counting
        counts.now.successors counts.now.operands head.now.attrs) (edge_or K.tables.value
        (record head.now { attrs = drop (counted_attributes counting counts.now.successors) head.now.attrs })
        (take 1 (map datum_of_value input.now))
        (choice_in (K.tables.role_of kind) head.now counts.now.successors (first_in (map datum_of_value input.now))))
        (map datum_of_value input.now))) }
{
    match edge_taken(alloc, kind, counting, head, counts.successors, input)? {
        Some(edge) => {
            let values = values_along(counting, &head.attrs, counts, edge, input);
            Ok(Some(Move::Goto(edge, all_copies(alloc, values)?)))
        }
        None => Ok(None),
    }
}

// The move of an operation of this kind, with this head and these counts.
fn move_by<K: Interprets>(
    alloc: Global,
    kind: K,
    head: &Head,
    counts: &Counts,
    memo: &Datum,
    input: &[Datum],
) -> Result<Option<Move>, AllocError>
    ensures { IfOk result (λ found. IfSome found (λ next. move_of next ≡ act_of K.tables.value
        (K.tables.role_of kind) (shape_by head.now counts.now) (datum_of_value memo.now)
        (map datum_of_value input.now))) }
{
    match kind.form() {
        Form::Constant => Ok(Some(constant_move(alloc, &head.attrs)?)),
        Form::Folds(_, otherwise) => fold_move(alloc, kind, otherwise, head, input),
        Form::Picks => picked_move(alloc, kind, head, input),
        Form::Opaque => given_move::<K>(alloc, head, counts.results, input),
        Form::Jumps => Ok(Some(Move::Goto(0, all_copies(alloc, input)?))),
        Form::Chooses(counting) => branch_move(alloc, kind, counting, head, counts, input),
        Form::Leaves => Ok(Some(Move::Leave(all_copies(alloc, input)?))),
        Form::Stops => Ok(Some(Move::Trap)),
        Form::Acts(_, _) | Form::Names | Form::Forks(_) => {
            let next = kind.own_move(alloc, head, counts, memo, input)?;
            Ok(Some(next))
        }
        Form::Holds(_) => Ok(Some(Move::Give(Vec::new(alloc)))),
    }
}

/// The move that the operation makes with this memo on this input; `None` where what it gives, or where it goes, isn't
/// known. Asks that the operation is live (`is_live` tests it). Errors: allocation failure. Cost: what the operation
/// reads and makes, and the number of its edges.
pub fn known_move<K: Interprets>(
    alloc: Global,
    ctx: &Context,
    op: Ptr<Operation>,
    memo: &Datum,
    input: &[Datum],
) -> Result<Option<Move>, AllocError>
    requires { IsLive ctx.now.tree op }
    ensures { IfOk result (λ found. IfSome found (λ next. ReadsShape (meaning_by K.tables.value (role_at K.tables)
        (allows_at K.tables)) (λ s. (meaning_by K.tables.value (role_at K.tables) (allows_at K.tables)).act s
        (datum_of_value memo.now) (map datum_of_value input.now)) ctx.now.tree op (move_of next))) }
{
    match K::from_number(op.head(ctx).kind) {
        Some(kind) => {
            let counts = counts_at::<K>(alloc, op, ctx)?;
            move_by(alloc, kind, op.head(ctx), &counts, memo, input)
        }
        None => Ok(Some(Move::Trap)),
    }
}

impl<K: Interprets> Evaluate for RunByRoles<K> {
    /// Errors: allocation failure; and where the move isn't known, which `evaluate_known` tells from it.
    fn next_move(
        alloc: Global,
        ctx: &Context,
        op: Ptr<Operation>,
        memo: &Datum,
        input: &[Datum],
    ) -> Result<Move, AllocError> {
        match known_move::<K>(alloc, ctx, op, memo, input)? {
            Some(next) => Ok(next),
            None => Err(AllocError),
        }
    }
}
