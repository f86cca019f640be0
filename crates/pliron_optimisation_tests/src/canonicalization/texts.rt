//! Texts, and what `canonicalize` leaves of them.
use super::cases::ROWS;
use super::random::RANDOM;
use crate::optimisation::Optimisation;
use crate::runs::keep_runs;
use crate::texts::{OptimisationCall, check_all};

/// Nothing is left for a second call.
const CANONICALIZATION: OptimisationCall = OptimisationCall {
    optimisation: Optimisation::Canonicalization,
    place: "root",
    words: 0,
    is_settled: true,
};

/// Only what is inside the second operation folds.
static NESTED: &str = "\
products with 0 in a scope and behind it -- C func { b0(x): z = const 0; scope { b0(): a = mul x z; print a; ret }; b = \
    mul x z; ret b } => func { b0(v0): v1 = const 0; scope { b0(): v2 = mul v0 v1; print v1; ret }; v3 = mul v0 v1; \
    ret v3 }";

#[test]
fn rows(rt: HostRuntime) {
    check_all(&rt, rt.alloc(), CANONICALIZATION, ROWS)
}

#[test]
fn random_texts(rt: HostRuntime) {
    check_all(&rt, rt.alloc(), CANONICALIZATION, RANDOM)
}

#[test]
fn a_nested_root(rt: HostRuntime) {
    let asked = OptimisationCall {
        place: "1",
        ..CANONICALIZATION
    };
    check_all(&rt, rt.alloc(), asked, NESTED)
}

#[test]
fn runs_are_kept(rt: HostRuntime) {
    keep_runs(&rt, rt.alloc(), CANONICALIZATION, RANDOM)
}
