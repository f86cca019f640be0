//! Texts, what `sccp` makes of them, and within which bounds it counts.
use super::cases::{DEFERRED, ENTERED, HOSTILE, ROWS};
use super::counts::{COUNTS_BEFORE, count};
use super::random_cases::MADE;
use crate::optimisation::Optimisation;
use crate::runs::keep_runs;
use crate::texts::{OptimisationCall, check_all, expect_text};
use pliron_test_cases::cases::{Case, case_of, number};
use std::alloc::Global;
use std::process::Abort;

/// What a folded operation answers gets one more constant from a second call.
const PROPAGATION: OptimisationCall = OptimisationCall {
    optimisation: Optimisation::Propagation,
    place: "root",
    words: 0,
    is_settled: false,
};

// The number of the first word, behind this label and `=`, and what follows the word.
fn number_before<'t>(text: &'t str, label: &str) -> Option<(u128, &'t str)> {
    let (word, rest) = text.split_once(' ')?;
    let (first, digits) = word.split_once('=')?;
    if first != label {
        return None;
    }
    Some((number(digits)? as u128, rest))
}

/// What the case says of its text.
#[derive(Clone, Copy)]
struct Facts<'t> {
    case: Case<'t>,
    blocks: u128,
    constants: u128,
    others: u128,
}

fn facts_of<'t>(row: &'t str) -> Option<Facts<'t>> {
    let case = case_of(row)?;
    let (blocks, rest) = number_before(case.text, "blocks")?;
    let (constants, rest) = number_before(rest, "constants")?;
    let (others, text) = number_before(rest, "others")?;
    Some(Facts {
        case: Case { text, ..case },
        blocks,
        constants,
        others,
    })
}

// What propagation that counts makes of the text is as the row says.
fn check_row(rt: &impl Abort, alloc: Global, row: &str) {
    let facts = facts_of(row).expect(rt, "a case with its counts");
    let case = facts.case;
    let counted = count(rt, alloc, case.text);
    expect_text(rt, counted.left.as_str(), case.after, case.name);
    expect_text(rt, counted.answer, case.answer, case.name);
    let least = facts
        .blocks
        .saturating_add(facts.constants)
        .saturating_add(facts.others);
    let most = least.saturating_add(facts.others);
    let pops = counted.pops;
    assert!(rt; least <= pops && pops <= most, "{}", case.name);
}

fn check_counted(rt: &impl Abort, alloc: Global, cases: &str) {
    for row in cases.lines() {
        check_row(rt, alloc, row);
    }
}

#[test]
fn rows(rt: HostRuntime) {
    check_counted(&rt, rt.alloc(), ROWS)
}

#[test]
fn made_texts(rt: HostRuntime) {
    check_counted(&rt, rt.alloc(), MADE)
}

// Operations with more operands than what is visited at once.
#[test]
fn what_is_deferred(rt: HostRuntime) {
    check_counted(&rt, rt.alloc(), DEFERRED)
}

// Blocks of more arguments than few to which operations go that are no branches.
#[test]
fn what_is_entered_whole(rt: HostRuntime) {
    check_counted(&rt, rt.alloc(), ENTERED)
}

// Roots whose runs are not defined.
#[test]
fn hostile_texts(rt: HostRuntime) {
    check_all(&rt, rt.alloc(), PROPAGATION, HOSTILE)
}

#[test]
fn each_change_has_room(rt: HostRuntime) {
    let asked = OptimisationCall {
        words: COUNTS_BEFORE,
        ..PROPAGATION
    };
    check_all(&rt, rt.alloc(), asked, ROWS);
    check_all(&rt, rt.alloc(), asked, MADE);
}

fn check_pops(rt: &impl Abort, alloc: Global, text: &str, answer: &str, pops: u128) {
    let counted = count(rt, alloc, text);
    expect_text(rt, counted.answer, answer, text);
    assert!(rt; counted.pops == pops, "{text}");
}

// A block alone; a block and three constants; a block and two values that are no constants.
#[test]
fn counts(rt: HostRuntime) {
    let alloc = rt.alloc();
    check_pops(&rt, alloc, "func { b0(): ret }", "U", 1);
    let sums = "func { b0(): a = const 5; b = add a a; c = add b a; ret c b }";
    check_pops(&rt, alloc, sums, "C", 4);
    check_pops(&rt, alloc, "func { b0(x): r = read; ret r }", "U", 3);
}

/// Texts before and after `sccp` on their second operation, worked out by hand. Nothing is known of values
/// from outside the root nor of what it passes to its own region, also where that is defined inside it.
static NESTED: &str = "\
a scope with an operand from outside -- C func { b0(): k = const 4; scope k { b0(x): a = const 1; b = add a a; c = \
    add k b; d = add x b; print b }; e = add k k; ret e } => func { b0(): v0 = const 4; scope v0 { b0(v1): v2 = \
    const 1; v3 = const 2; v4 = add v2 v2; v5 = add v0 v3; v6 = add v1 v3; print v3 }; v7 = add v0 v0; ret v7 }
a scope with an operand from inside -- C func { b0(): k = const 4; scope a { b0(p): a = const 1; b = add a a; print \
    p; print b }; ret } => func { b0(): v0 = const 4; scope v2 { b0(v1): v2 = const 1; v3 = const 2; v4 = add v2 \
    v2; print v1; print v3 }; ret }
a scope in a scope -- C func { b0(): k = const 4; scope k { b0(p): a = const 1; scope a p { b0(q, r): print q; print \
    r } }; ret } => func { b0(): v0 = const 4; scope v0 { b0(v1): v2 = const 1; scope v2 v1 { b0(v3, v4): v5 = \
    const 1; print v5; print v4 } }; ret }";

// Only what is inside the root is rewritten.
#[test]
fn nested_roots(rt: HostRuntime) {
    let asked = OptimisationCall {
        place: "1",
        ..PROPAGATION
    };
    check_all(&rt, rt.alloc(), asked, NESTED)
}

#[test]
fn runs_are_kept(rt: HostRuntime) {
    let asked = OptimisationCall {
        words: COUNTS_BEFORE,
        ..PROPAGATION
    };
    keep_runs(&rt, rt.alloc(), asked, MADE)
}
