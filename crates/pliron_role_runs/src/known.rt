//! Runs that end where it isn't known what an operation gives.
ghost use Rattle.std.specs.Prelude.{◌≡◌, ◌≤◌, map, IfOk};
ghost use Rattle.pliron_laws.specs.Machine.{run, sight_after};
ghost use Rattle.pliron_evaluator.specs.Evaluator.{datum_of_value, sight_of};
ghost use Rattle.pliron_dialect.specs.Roles.{role_at, allows_at, meaning_by};

use crate::data::all_copies;
use crate::interprets::Interprets;
use crate::role_moves::{RunByRoles, known_move};
use pliron_core::{Context, Operation, Ptr};
use pliron_evaluator::evaluator::{Datum, Notes, RunInputs, Sight, evaluate, evaluate_noting};
use std::alloc::{AllocError, Global};

/// What is seen of a run as far as it is known.
#[derive(Debug, Drop)]
pub struct KnownRun {
    pub sight: Sight,
    /// After how many steps at most this was seen.
    pub steps: usize,
}

/// What is seen of a run of the root, as `evaluate` does; where it isn't known what an operation gives, or where it
/// goes, the run ends there, as if its steps were used up.
///
/// Errors: allocation failure. Cost: that of `evaluate`, with one more copy of what each operation reads; where the run
/// ends so, about as many runs more as the logarithm of its steps.
pub fn evaluate_known<K: Interprets>(
    alloc: Global,
    ctx: &Context,
    root: Ptr<Operation>,
    given: &RunInputs,
) -> Result<KnownRun, AllocError>
    ensures steps { IfOk result (λ known. known.steps ≤ given.now.fuel) }
    ensures sight { IfOk result (λ known. sight_of known.sight ≡ sight_after (run (meaning_by K.tables.value
        (role_at K.tables) (allows_at K.tables)) ctx.now.tree root (map datum_of_value given.now.inputs.items)
        (map datum_of_value given.now.world.items) known.steps)) }
{
    let mut notes = Notes::of_all(alloc);
    let whole = RunInputs {
        inputs: all_copies(alloc, &given.inputs)?,
        world: all_copies(alloc, &given.world)?,
        fuel: given.fuel,
    };
    match evaluate_noting::<RunByRoles<K>>(alloc, ctx, root, whole, &mut notes) {
        Ok(sight) => Ok(KnownRun {
            sight,
            steps: given.fuel,
        }),
        Err(failed) => {
            if ends_unknown::<K>(alloc, ctx, &notes)? {
                let moves = notes.moves.len();
                longest_known::<K>(alloc, ctx, root, given, moves.saturating_sub(1), moves)
            } else {
                Err(failed)
            }
        }
    }
}

// Whether the move that was noted last isn't known.
fn ends_unknown<K: Interprets>(
    alloc: Global,
    ctx: &Context,
    notes: &Notes,
) -> Result<bool, AllocError> {
    let Some(last) = notes.moves.last() else {
        return Ok(false);
    };
    let Some(input) = &last.input else {
        return Ok(false);
    };
    if !last.op.is_live(ctx) {
        return Ok(false);
    }
    let next = known_move::<K>(alloc, ctx, last.op, &Datum::Empty, input)?;
    Ok(next.is_none())
}

// What is seen after so many steps.
fn seen_after<K: Interprets>(
    alloc: Global,
    ctx: &Context,
    root: Ptr<Operation>,
    given: &RunInputs,
    steps: usize,
) -> Result<KnownRun, AllocError>
    ensures steps { IfOk result (λ known. known.steps ≡ steps) }
    ensures sight { IfOk result (λ known. sight_of known.sight ≡ sight_after (run (meaning_by K.tables.value
        (role_at K.tables) (allows_at K.tables)) ctx.now.tree root (map datum_of_value given.now.inputs.items)
        (map datum_of_value given.now.world.items) known.steps)) }
{
    let inputs = all_copies(alloc, &given.inputs)?;
    let world = all_copies(alloc, &given.world)?;
    let sight = evaluate::<RunByRoles<K>>(alloc, ctx, root, inputs, world, steps)?;
    Ok(KnownRun { sight, steps })
}

// What is seen after the most steps whose moves are known. So many are; the moves that were noted are so many, and at
// most as many steps more ended a block that no operation ended, each the end of a visit.
fn longest_known<K: Interprets>(
    alloc: Global,
    ctx: &Context,
    root: Ptr<Operation>,
    given: &RunInputs,
    known: usize,
    moves: usize,
) -> Result<KnownRun, AllocError>
    ensures steps { IfOk result (λ known. known.steps ≤ given.now.fuel) }
    ensures sight { IfOk result (λ known. sight_of known.sight ≡ sight_after (run (meaning_by K.tables.value
        (role_at K.tables) (allows_at K.tables)) ctx.now.tree root (map datum_of_value given.now.inputs.items)
        (map datum_of_value given.now.world.items) known.steps)) }
{
    let mut longest = seen_after::<K>(alloc, ctx, root, given, known.min(given.fuel))?;
    let mut end = known.saturating_add(moves).min(given.fuel);
    // Each turn halves what is left of 64 bits.
    for _ in 0..64 {
        if end <= longest.steps {
            break;
        }
        let middle = end - (end - longest.steps) / 2;
        match seen_after::<K>(alloc, ctx, root, given, middle) {
            Ok(longer) => longest = longer,
            Err(_) => end = middle - 1,
        }
    }
    Ok(longest)
}
