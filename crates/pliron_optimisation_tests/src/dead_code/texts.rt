//! Texts, and what `dce` leaves of them.
use super::boxes::BOXES;
use super::cases::{DEFINED, ROWS};
use super::hostile::HOSTILE;
use super::short::SHORT;
use crate::optimisation::Optimisation;
use crate::runs::keep_runs;
use crate::texts::{OptimisationCall, check_all};

/// Nothing is left for a second call.
pub const DEAD_CODE: OptimisationCall = OptimisationCall {
    optimisation: Optimisation::DeadCode,
    place: "root",
    words: 0,
    is_settled: true,
};

/// Only what is inside the second operation is erased.
static NESTED: &str = "\
a box, whose sink goes and which stays -- C func { b0(): k = const 4; box { b0(): sink k }; ret } => func { b0(): v0 = \
    const 4; box { b0(): }; ret }";

#[test]
fn rows(rt: HostRuntime) {
    check_all(&rt, rt.alloc(), DEAD_CODE, ROWS)
}

#[test]
fn hostile_texts(rt: HostRuntime) {
    check_all(&rt, rt.alloc(), DEAD_CODE, HOSTILE)
}

#[test]
fn defined_texts(rt: HostRuntime) {
    check_all(&rt, rt.alloc(), DEAD_CODE, DEFINED)
}

#[test]
fn boxes_that_go_one_by_one(rt: HostRuntime) {
    check_all(&rt, rt.alloc(), DEAD_CODE, BOXES)
}

#[test]
fn edges_that_forward_too_few(rt: HostRuntime) {
    check_all(&rt, rt.alloc(), DEAD_CODE, SHORT)
}

#[test]
fn a_nested_root(rt: HostRuntime) {
    let asked = OptimisationCall {
        place: "1",
        ..DEAD_CODE
    };
    check_all(&rt, rt.alloc(), asked, NESTED)
}

#[test]
fn runs_are_kept(rt: HostRuntime) {
    keep_runs(&rt, rt.alloc(), DEAD_CODE, DEFINED)
}
