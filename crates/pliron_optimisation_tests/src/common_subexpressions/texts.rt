//! Texts, and what `cse` leaves of them.
use super::cases::{BACKWARDS, ROWS};
use super::random::RANDOM;
use crate::optimisation::Optimisation;
use crate::runs::keep_runs;
use crate::texts::{OptimisationCall, check_all};

/// Nothing is left for a second call.
const COMMON_SUBEXPRESSIONS: OptimisationCall = OptimisationCall {
    optimisation: Optimisation::CommonSubexpressions,
    place: "root",
    words: 0,
    is_settled: true,
};

/// Only what is inside the first operation is erased, and only operations inside it lead.
static NESTED: &str = "\
equal sums in a scope and behind it -- C func { b0(x): scope { b0(): a = add x x; b = add x x; print a; print b; ret }; \
    c = add x x; d = add x x; ret c d } => func { b0(v0): scope { b0(): v1 = add v0 v0; print v1; print v1; ret }; \
    v2 = add v0 v0; v3 = add v0 v0; ret v2 v3 }";

#[test]
fn rows(rt: HostRuntime) {
    check_all(&rt, rt.alloc(), COMMON_SUBEXPRESSIONS, ROWS)
}

#[test]
fn uses_before_definitions(rt: HostRuntime) {
    let asked = OptimisationCall {
        is_settled: false,
        ..COMMON_SUBEXPRESSIONS
    };
    check_all(&rt, rt.alloc(), asked, BACKWARDS)
}

#[test]
fn random_texts(rt: HostRuntime) {
    check_all(&rt, rt.alloc(), COMMON_SUBEXPRESSIONS, RANDOM)
}

#[test]
fn a_nested_root(rt: HostRuntime) {
    let asked = OptimisationCall {
        place: "0",
        ..COMMON_SUBEXPRESSIONS
    };
    check_all(&rt, rt.alloc(), asked, NESTED)
}

#[test]
fn runs_are_kept(rt: HostRuntime) {
    keep_runs(&rt, rt.alloc(), COMMON_SUBEXPRESSIONS, RANDOM)
}
