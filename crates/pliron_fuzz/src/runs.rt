//! What is seen of the functions of a text when they run.
ghost use Rattle.std.specs.Prelude.{IsOkUnless};
ghost use Rattle.pliron_core.specs.Tree.{IsLive};

use pliron_core::{Contents, Context, Operation, Ptr};
use pliron_dialect_bench::{Bench, BenchKind};
use pliron_evaluator::evaluator::{Datum, Sight, evaluate};
use pliron_laws::{Dialect, OptError};
use pliron_text::read_text;
use std::alloc::{AllocError, Global};

/// The most moves of a run before, and after, where constants that were made may add moves.
const MOVES: usize = 60;

const MOVES_AFTER: usize = 3_000;

/// What is given to a run: inputs, and the answers of the world.
static RUNS: [(&[i128], &[i128]); 4] = [
    (&[2, 0], &[1, 0, 3, 0, 0, 5]),
    (&[0, -1], &[0, 0, 2, 1]),
    (&[1], &[7, 1, 1, 0, 0, 0, 4, 1, 0, 1, 1, 0]),
    (&[], &[]),
];

fn data(alloc: Global, numbers: &[i128]) -> Result<Vec<Datum>, AllocError> {
    let mut data = Vec::new(alloc);
    for number in numbers {
        data.push(Datum::Number(*number))?;
    }
    Ok(data)
}

// The operation and all that are inside it that are functions, in the order of the text.
fn functions(
    alloc: Global,
    root: Ptr<Operation>,
    ctx: &Context,
) -> Result<Vec<Ptr<Operation>>, AllocError>
    requires { IsLive ctx.now.tree root }
{
    let mut found = Vec::new(alloc);
    if Bench::is_kind(root, ctx, BenchKind::Func) {
        found.push(root)?;
    }
    for op in Contents::new(root, ctx) {
        if op.is_live(ctx) && Bench::is_kind(op, ctx, BenchKind::Func) {
            found.push(op)?;
        }
    }
    Ok(found)
}

// What is seen of each function of the text, on each of a few inputs and worlds, up to so many moves; `None`
// for a text outside the notation.
fn sights(alloc: Global, text: &str, most: usize) -> Result<Option<Vec<Sight>>, OptError>
    ensures { IsOkUnless result OptError.Memory }
{
    let mut ctx = Context::new(alloc);
    sights_in(alloc, text, most, &mut ctx)
}

fn sights_in(
    alloc: Global,
    text: &str,
    most: usize,
    ctx: &mut Context,
) -> Result<Option<Vec<Sight>>, OptError>
    ensures { IsOkUnless result OptError.Memory }
{
    match read_text(alloc, text.as_bytes(), ctx)? {
        Some(root) => Ok(Some(sights_of(alloc, root, most, ctx)?)),
        None => Ok(None),
    }
}

// The same of the functions in the root.
fn sights_of(
    alloc: Global,
    root: Ptr<Operation>,
    most: usize,
    ctx: &Context,
) -> Result<Vec<Sight>, AllocError>
    requires { IsLive ctx.now.tree root }
{
    let mut found = Vec::new(alloc);
    for op in &functions(alloc, root, ctx)? {
        for (inputs, world) in &RUNS {
            let inputs = data(alloc, inputs)?;
            let world = data(alloc, world)?;
            found.push(evaluate::<Bench>(alloc, ctx, *op, inputs, world, most)?)?;
        }
    }
    Ok(found)
}

// Whether the one list ends with the other.
fn ends_with(effects: &[Datum], last: &[Datum]) -> bool {
    match effects.len().checked_sub(last.len()) {
        Some(count) => effects.get(count..) == Some(last),
        None => false,
    }
}

// The effects of a run, latest first.
fn effects(sight: &Sight) -> &[Datum] {
    match sight {
        Sight::Ended(_, effects) | Sight::Trapped(effects) | Sight::Reached(effects) => effects,
    }
}

// Whether a run may be the same as one that made no further move: the effects of one of both are the first
// effects of the other.
fn may_be_same(old: &Sight, new: &Sight) -> bool {
    ends_with(effects(old), effects(new)) || ends_with(effects(new), effects(old))
}

// Whether runs before and after, on the same inputs and worlds, may be the same. One that ended before has
// to end so after; so the second should have more moves to make.
fn are_kept(before: &[Sight], after: &[Sight]) -> bool {
    before.len() == after.len()
        && before.iter().zip(after.iter()).all(|(old, new)| match old {
            Sight::Reached(_) => may_be_same(old, new),
            Sight::Ended(_, _) | Sight::Trapped(_) => old == new,
        })
}

/// Whether the functions of both texts run alike on a few inputs and worlds, as far as a few moves show it.
///
/// Errors: allocation failure. Cost: that of the runs by the evaluator.
pub fn runs_are_kept(alloc: Global, before: &str, after: &str) -> Result<bool, OptError>
    ensures { IsOkUnless result OptError.Memory }
{
    let Some(old) = sights(alloc, before, MOVES)? else {
        return Ok(false);
    };
    for most in [MOVES, MOVES_AFTER] {
        let Some(new) = sights(alloc, after, most)? else {
            return Ok(false);
        };
        if are_kept(&old, &new) {
            return Ok(true);
        }
    }
    Ok(false)
}
