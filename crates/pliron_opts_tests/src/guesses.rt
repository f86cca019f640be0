//! Runs that end where it isn't known what an operation gives, worked by hand.
use crate::guessed_kind::GuessedKind;
use pliron_core::{Context, Operation, Ptr};
use pliron_evaluator::evaluator::{Datum, RunInputs, Sight};
use pliron_role_runs::{KnownRun, evaluate_known};
use pliron_text::read_operation;
use std::alloc::Global;
use std::process::Abort;

// Of each run a name, how many steps it may make, a function, after how many steps what is seen was seen, and whether
// it ended. Each has the input 5 and the answer 7.
static RUNS: [(&str, usize, &str, usize, bool); 4] = [
    (
        "a guess that is known",
        50,
        "function { b0(x): r = guess x; return r }",
        50,
        true,
    ),
    (
        "a guess that isn't, behind an effect",
        50,
        "function { b0(x): r = ask x; q = guess; return x }",
        3,
        false,
    ),
    (
        "steps that are used up before it",
        2,
        "function { b0(x): r = ask x; q = guess; return x }",
        2,
        false,
    ),
    (
        "a guess at once",
        50,
        "function { b0(x): q = guess; return x }",
        1,
        false,
    ),
];

fn numbers(rt: &impl Abort, alloc: Global, number: i128) -> Vec<Datum> {
    let mut data = Vec::new(alloc);
    data.push(Datum::Number(number)).expect(rt, "memory");
    data
}

fn run(
    rt: &impl Abort,
    alloc: Global,
    ctx: &Context,
    root: Ptr<Operation>,
    fuel: usize,
) -> KnownRun {
    let given = RunInputs {
        inputs: numbers(rt, alloc, 5),
        world: numbers(rt, alloc, 7),
        fuel,
    };
    evaluate_known::<GuessedKind>(alloc, ctx, root, &given).expect(rt, "memory")
}

#[test]
fn runs_as_far_as_known(rt: HostRuntime) {
    let alloc = rt.alloc();
    for (name, fuel, text, steps, ended) in RUNS.iter().copied() {
        let ctx = &mut Context::new(alloc);
        let read = read_operation::<GuessedKind>(alloc, text.as_bytes(), ctx).expect(&rt, "memory");
        let root = read.expect(&rt, "readable");
        let known = run(&rt, alloc, ctx, root, fuel);
        assert!(rt; known.steps == steps, "{name}");
        assert!(rt;
            matches!(known.sight, Sight::Ended(_, _)) == ended,
            "{name}"
        );
    }
}
