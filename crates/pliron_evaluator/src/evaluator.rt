//! A plain evaluator of trees, to test dialects and texts by: what it answers is what is seen of the
//! run, by the definition itself. No optimisation runs a program.
//!
//! A step costs what its operation reads and makes, and one that enters a block as much as that block has operations.
ghost use Rattle.std.specs.Prelude.{◌≡◌, map, IfOk};
ghost use Rattle.pliron_laws.specs.Machine.{run, sight_after};
ghost use Rattle.pliron_evaluator.specs.Evaluator.{datum_of_value, sight_of};

mod bench_moves;
mod environment;
mod notes;
mod shapes;
mod state;
mod tiny_moves;
mod values;

pub use crate::evaluator::notes::{NotedMove, Notes};
use crate::evaluator::state::{Next, start, step};
use pliron_core::{Context, Operation, Ptr};
use std::alloc::{AllocError, Global};
pub use values::{Datum, Evaluate, Move, RunInputs, Sight};

/// What is seen of a run of the root. The run gets these inputs and, in order, these answers of the world, and makes at
/// most `fuel` steps. A root that isn't live traps.
///
/// Errors: allocation failure. Cost: a step copies what the operation reads and the operations of the block that it
/// enters, and looks up each value once.
pub fn evaluate<D: Evaluate>(
    alloc: Global,
    ctx: &Context,
    root: Ptr<Operation>,
    inputs: Vec<Datum>,
    world: Vec<Datum>,
    fuel: usize,
) -> Result<Sight, AllocError>
    ensures { IfOk result (λ sight. sight_of sight ≡ sight_after (run D.meaning ctx.now.tree root
        (map datum_of_value inputs.items) (map datum_of_value world.items) fuel)) }
{
    let mut notes = Notes::of_last(alloc);
    let given = RunInputs {
        inputs,
        world,
        fuel,
    };
    evaluate_noting::<D>(alloc, ctx, root, given, &mut notes)
}

/// The same, where notes are taken of the moves: each is noted before it is made.
///
/// Errors: allocation failure. Cost: that of `evaluate`, and where all moves are noted, one more copy of what each
/// operation reads.
pub fn evaluate_noting<D: Evaluate>(
    alloc: Global,
    ctx: &Context,
    root: Ptr<Operation>,
    given: RunInputs,
    notes: &mut Notes,
) -> Result<Sight, AllocError>
    ensures { IfOk result (λ sight. sight_of sight ≡ sight_after (run D.meaning ctx.now.tree root
        (map datum_of_value given.inputs.items) (map datum_of_value given.world.items) given.fuel)) }
{
    let mut state = start(alloc, root, given.inputs, given.world)?;
    for _ in 0..given.fuel {
        notes.take(alloc, ctx, &state)?;
        match step::<D>(alloc, ctx, state)? {
            Next::Continues(next) => state = next,
            Next::Over(sight) => return Ok(sight),
        }
    }
    Ok(Sight::Reached(Vec::from(state.effects)))
}
