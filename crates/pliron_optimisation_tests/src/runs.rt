//! Runs of texts before and after an optimisation, compared by the evaluator.
use crate::texts::{OptimisationCall, case_behind};
use pliron_core::Context;
use pliron_test_cases::cases::{Case, read};
use pliron_test_cases::runs::{are_kept, sights};
use std::alloc::Global;
use std::process::Abort;

/// So many transitions are followed.
const BEFORE: usize = 100;

/// What makes constants takes more of them, so that a run that ended before ends within these.
const AFTER: usize = 500;

fn compare_in(
    rt: &impl Abort,
    alloc: Global,
    ctx: &mut Context,
    asked: OptimisationCall,
    case: &Case,
) {
    let name = case.name;
    let root = read(alloc, ctx, case.text).expect(rt, "a readable text");
    let before = sights(alloc, ctx, root, BEFORE).expect(rt, "memory");
    let answer = asked.optimisation.run(rt, alloc, ctx, root);
    assert!(rt; answer.is_ok(), "{name}");
    let after = sights(alloc, ctx, root, AFTER).expect(rt, "memory");
    assert!(rt; are_kept(&before, &after), "{name}");
}

fn compare(rt: &impl Abort, alloc: Global, asked: OptimisationCall, case: &Case) {
    let mut ctx = Context::new(alloc);
    compare_in(rt, alloc, &mut ctx, asked, case)
}

// The optimisation of each text keeps its runs.
pub fn keep_runs(rt: &impl Abort, alloc: Global, asked: OptimisationCall, cases: &str) {
    for row in cases.lines() {
        compare(rt, alloc, asked, &case_behind(rt, row, asked.words));
    }
}
