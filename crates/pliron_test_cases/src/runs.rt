//! Runs of operations of the dialect `Bench` on numbers, and what is seen of them before and after a rewrite.
use crate::bench::Bench;
use crate::evaluator::{Datum, Sight, evaluate};
use pliron_core::{Context, Operation, Ptr};
use std::alloc::{AllocError, Global};

// The numbers as data.
fn data(alloc: Global, numbers: &[i128]) -> Result<Vec<Datum>, AllocError> {
    let mut data = Vec::new(alloc);
    for number in numbers {
        data.push(Datum::Number(*number))?;
    }
    Ok(data)
}

/// What is seen of the run of the operation on these inputs, in the environment with these answers, up to so
/// many transitions. Errors: allocation failure. Cost: that of `evaluate`, and linear in inputs and answers.
pub fn sight_of_run(
    alloc: Global,
    ctx: &Context,
    root: Ptr<Operation>,
    inputs: &[i128],
    world: &[i128],
    most: usize,
) -> Result<Sight, AllocError> {
    let inputs = data(alloc, inputs)?;
    let answers = data(alloc, world)?;
    evaluate::<Bench>(alloc, ctx, root, inputs, answers, most)
}

/// What is seen of three runs of the operation, up to so many transitions each. Errors: allocation failure.
/// Cost: that of three runs by `sight_of_run`.
pub fn sights(
    alloc: Global,
    ctx: &Context,
    root: Ptr<Operation>,
    most: usize,
) -> Result<Vec<Sight>, AllocError> {
    let first = sight_of_run(alloc, ctx, root, &[2, 0], &[1, 0, 3, 0, 0, 5], most)?;
    let second = sight_of_run(alloc, ctx, root, &[0, -1], &[0, 0, 2, 1], most)?;
    let third = sight_of_run(alloc, ctx, root, &[1], &[7, 1, 1, 0, 0, 0, 4], most)?;
    Ok(Vec::from_array(alloc, [first, second, third])?)
}

/// Whether the same is seen of each run before and after. One that was cut short before may come further once
/// it has fewer transitions to make, so nothing is asked of it. Cost: linear in what is seen.
pub fn are_kept(before: &[Sight], after: &[Sight]) -> bool {
    if before.len() != after.len() {
        return false;
    }
    for (old, new) in before.iter().zip(after.iter()) {
        match old {
            Sight::Reached(_) => {}
            _ => {
                if old != new {
                    return false;
                }
            }
        }
    }
    true
}
