//! How often propagation pops something off a worklist, on the made texts and on those of what is deferred and
//! of what is entered whole.
//!
//! The counts are found by a plain search, `tools/expected/worklists.py`, which shares with the crate only the order
//! of work: last in, first out, blocks before values, and these before what is deferred. Without the last rule it
//! counts 39 on the third text of `DEFERRED`.
use super::cases::{DEFERRED, ENTERED};
use super::random_cases::MADE;
use crate::optimisation::letter;
use crate::texts::case_behind;
use pliron_core::Context;
use pliron_dialect_bench::Bench;
use pliron_opt_sccp::sccp_counted;
use pliron_test_cases::cases::{line, number, read};
use std::alloc::Global;
use std::process::Abort;

static COUNTS: &str = "\
1 11 7 15 9 9 7 18 10 8 1 6 10 11 9 8 10 8 11 9 \
10 6 19 12 18 11 10 17 7 12 10 18 10 12 10 4 13 13 6 20 \
17 13 8 10 15 9 12 13 16 8 10 19 12 15 8 3 10 20 11 11 \
8 11 8 9 11 2 8 7 9 7 18 16 27 9 21 14 13 8 13 22 \
1 11 14 14 16 2 14 19 9 8 7 10 17 16 11 3 14 12 12 11 \
1 15 16 11 7 11 8 8 13 9 1 10 15 9 6 10 8 11 7 12 \
12 9 6 8 9 8 13 11 10 8 9 8 7 8 12 16 11 14 13 17 \
16 7 17 15 18 12 6 12 8 7 13 12 8 11 12 15 5 17 7 16";

static DEFERRED_COUNTS: &str = "42 17 31 33 21 38 22 18 42";

static ENTERED_COUNTS: &str = "27 19 18 16 27";

/// How many counts are before a text.
pub const COUNTS_BEFORE: usize = 3;

/// What propagation that counts answers for a text, leaves of it, and how often it pops.
#[derive(Drop)]
pub struct Counted {
    pub answer: &'static str,
    pub left: String,
    pub pops: u128,
}

fn count_in(rt: &impl Abort, alloc: Global, ctx: &mut Context, text: &str) -> Counted {
    let root = read(alloc, ctx, text).expect(rt, "a readable text");
    let (status, pops) = sccp_counted::<Bench>(alloc, root, ctx).expect(rt, "memory");
    Counted {
        answer: letter(Ok(status)),
        left: line(alloc, ctx, root).expect(rt, "the root"),
        pops,
    }
}

// Propagates in the text, and counts.
pub fn count(rt: &impl Abort, alloc: Global, text: &str) -> Counted {
    let mut ctx = Context::new(alloc);
    count_in(rt, alloc, &mut ctx, text)
}

fn check_count(rt: &impl Abort, alloc: Global, row: &str, wanted: &str) {
    let case = case_behind(rt, row, COUNTS_BEFORE);
    let wanted = number(wanted).expect(rt, "a number");
    let pops = count(rt, alloc, case.text).pops;
    assert!(rt; pops == wanted as u128, "{}", case.name);
}

// Each of these texts is counted as often as the number in its place says.
fn count_each(rt: &impl Abort, alloc: Global, cases: &str, wanted: &str) {
    let mut counts = wanted.split(' ');
    for row in cases.lines() {
        let wanted = counts.next().expect(rt, "a count");
        check_count(rt, alloc, row, wanted);
    }
    assert!(rt; counts.next().is_none());
}

#[test]
fn made_texts_are_counted(rt: HostRuntime) {
    count_each(&rt, rt.alloc(), MADE, COUNTS)
}

#[test]
fn what_is_deferred_is_counted(rt: HostRuntime) {
    count_each(&rt, rt.alloc(), DEFERRED, DEFERRED_COUNTS)
}

#[test]
fn what_is_entered_whole_is_counted(rt: HostRuntime) {
    count_each(&rt, rt.alloc(), ENTERED, ENTERED_COUNTS)
}
