//! Texts, and what the calls on control flow leave of them.
use super::calls::Call;
use super::cases::{DEFINED, HOSTILE, ORDERS, ROWS};
use crate::optimisation::Optimisation;
use crate::runs::keep_runs;
use crate::texts::{OptimisationCall, check, check_all};
use pliron_core::{Context, IRStatus};
use pliron_laws::OptError;
use pliron_test_cases::cases::{Case, case_of, read};
use pliron_test_cases::listener::CountingListener;
use std::alloc::Global;
use std::process::Abort;

/// The whole. A second call may find more to fold.
const SIMPLIFICATION: OptimisationCall = OptimisationCall {
    optimisation: Optimisation::ControlFlow(Call::Simplify),
    place: "root",
    words: 0,
    is_settled: false,
};

// The call whose name is before the text of the case, and the case without it.
fn called(row: &str) -> Option<(Call, Case<'_>)> {
    let case = case_of(row)?;
    let (word, text) = case.text.split_once(' ')?;
    Some((Call::of(word)?, Case { text, ..case }))
}

fn check_call(rt: &impl Abort, alloc: Global, row: &str) {
    let (call, case) = called(row).expect(rt, "a case with its call");
    let asked = OptimisationCall {
        optimisation: Optimisation::ControlFlow(call),
        ..SIMPLIFICATION
    };
    check(rt, alloc, asked, &case);
}

fn check_called(rt: &impl Abort, alloc: Global, cases: &str) {
    for row in cases.lines() {
        check_call(rt, alloc, row);
    }
}

#[test]
fn rows(rt: HostRuntime) {
    check_called(&rt, rt.alloc(), ROWS)
}

#[test]
fn where_the_order_shows(rt: HostRuntime) {
    check_called(&rt, rt.alloc(), ORDERS)
}

#[test]
fn hostile_texts(rt: HostRuntime) {
    check_all(&rt, rt.alloc(), SIMPLIFICATION, HOSTILE)
}

#[test]
fn defined_texts(rt: HostRuntime) {
    check_all(&rt, rt.alloc(), SIMPLIFICATION, DEFINED)
}

fn room_in(rt: &impl Abort, alloc: Global, ctx: &mut Context, case: &Case) {
    let root = read(alloc, ctx, case.text).expect(rt, "a readable text");
    let mut rewriter = CountingListener::new();
    let answer = SIMPLIFICATION
        .optimisation
        .run_through(rt, alloc, ctx, root, &mut rewriter);
    assert!(rt;
        answer.is_ok() || answer == Err(OptError::LiveUse),
        "{}",
        case.name
    );
    assert!(rt; rewriter.had_room(), "{}", case.name);
}

fn check_room(rt: &impl Abort, alloc: Global, row: &str) {
    let (_, case) = called(row).expect(rt, "a case with its call");
    let mut ctx = Context::new(alloc);
    room_in(rt, alloc, &mut ctx, &case);
}

// The whole on texts that the table has for calls of its parts.
fn check_called_have_room(rt: &impl Abort, alloc: Global, cases: &str) {
    for row in cases.lines() {
        check_room(rt, alloc, row);
    }
}

#[test]
fn each_change_has_room(rt: HostRuntime) {
    check_called_have_room(&rt, rt.alloc(), ROWS);
    check_called_have_room(&rt, rt.alloc(), ORDERS);
}

// Nothing is left to remove or to merge.
fn none_left_in(rt: &impl Abort, alloc: Global, ctx: &mut Context, case: &Case) {
    let root = read(alloc, ctx, case.text).expect(rt, "a readable text");
    if SIMPLIFICATION
        .optimisation
        .run(rt, alloc, ctx, root)
        .is_err()
    {
        return;
    }
    for call in [Call::Remove, Call::Merge] {
        let answer = Optimisation::ControlFlow(call).run(rt, alloc, ctx, root);
        assert!(rt; answer == Ok(IRStatus::Unchanged), "{}", case.name);
    }
}

fn check_left(rt: &impl Abort, alloc: Global, row: &str) {
    let case = case_of(row).expect(rt, "a case");
    let mut ctx = Context::new(alloc);
    none_left_in(rt, alloc, &mut ctx, &case);
}

fn check_none_left(rt: &impl Abort, alloc: Global, cases: &str) {
    for row in cases.lines() {
        check_left(rt, alloc, row);
    }
}

#[test]
fn none_is_left(rt: HostRuntime) {
    check_none_left(&rt, rt.alloc(), HOSTILE);
    check_none_left(&rt, rt.alloc(), DEFINED);
}

#[test]
fn runs_are_kept(rt: HostRuntime) {
    keep_runs(&rt, rt.alloc(), SIMPLIFICATION, DEFINED)
}
