//! Texts, what an optimisation answers for an operation of each, and what it leaves of the whole: called by itself, and
//! through a rewriter that counts, which has room for each change.
use crate::optimisation::{Optimisation, letter};
use pliron_core::{Context, Operation, Ptr};
use pliron_test_cases::cases::{Case, case_of, line, operation_at, read};
use pliron_test_cases::listener::CountingListener;
use std::alloc::Global;
use std::process::Abort;

/// What is asked of each text of a table.
#[derive(Clone, Copy)]
pub struct OptimisationCall {
    pub optimisation: Optimisation,
    /// The operation of the text that it is called on, as `operation_at` names it.
    pub place: &'static str,
    /// How many words are between the answer and the text.
    pub words: usize,
    /// Called again, it finds nothing to change.
    pub is_settled: bool,
}

// The case without so many words before its text.
fn text_behind(case: Case<'_>, words: usize) -> Option<Case<'_>> {
    let mut text = case.text;
    for _ in 0..words {
        let (_, rest) = text.split_once(' ')?;
        text = rest;
    }
    Some(Case { text, ..case })
}

/// The case of the row, without so many words before its text.
pub fn case_behind<'t>(rt: &impl Abort, row: &'t str, words: usize) -> Case<'t> {
    let case = case_of(row).expect(rt, "a case");
    text_behind(case, words).expect(rt, "a text")
}

/// The texts are the same.
pub fn expect_text(rt: &impl Abort, got: &str, want: &str, name: &str) {
    assert_eq!(rt; got, want, "{name}");
}

// The operation at the place, which is the whole or inside it.
fn place_in(rt: &impl Abort, ctx: &Context, whole: Ptr<Operation>, place: &str) -> Ptr<Operation> {
    let root = operation_at(ctx, whole, place).expect(rt, "an operation");
    assert!(rt; root.is_live(ctx));
    assert!(rt; root == whole || root.is_inside(whole, ctx));
    root
}

// What is answered where each change is made through a rewriter, which has room for it. It gets a change exactly if
// the answer is that the text changed, but where the call refuses; dead code elimination makes none through it.
fn answer_through(
    rt: &impl Abort,
    alloc: Global,
    ctx: &mut Context,
    root: Ptr<Operation>,
    optimisation: Optimisation,
    name: &str,
) -> &'static str {
    let mut rewriter = CountingListener::new();
    let answer = letter(optimisation.run_through(rt, alloc, ctx, root, &mut rewriter));
    assert!(rt; rewriter.had_room(), "{name}");
    if answer != "R" && !matches!(optimisation, Optimisation::DeadCode) {
        assert!(rt; (answer == "C") == (rewriter.changes() != 0), "{name}");
    }
    answer
}

fn check_in(
    rt: &impl Abort,
    alloc: Global,
    ctx: &mut Context,
    asked: OptimisationCall,
    case: &Case,
    is_through: bool,
) {
    let name = case.name;
    let whole = read(alloc, ctx, case.text).expect(rt, "a readable text");
    let root = place_in(rt, ctx, whole, asked.place);
    let answer = if is_through {
        answer_through(rt, alloc, ctx, root, asked.optimisation, name)
    } else {
        letter(asked.optimisation.run(rt, alloc, ctx, root))
    };
    expect_text(rt, answer, case.answer, name);
    let left = line(alloc, ctx, whole).expect(rt, "the whole");
    expect_text(rt, left.as_str(), case.after, name);
    if asked.is_settled {
        let again = letter(asked.optimisation.run(rt, alloc, ctx, root));
        expect_text(rt, again, "U", name);
    }
}

// What is asked of the text is as the case says.
pub fn check(rt: &impl Abort, alloc: Global, asked: OptimisationCall, case: &Case) {
    for is_through in [false, true] {
        let mut ctx = Context::new(alloc);
        check_in(rt, alloc, &mut ctx, asked, case, is_through);
    }
}

// What is asked of each text is as its case says.
pub fn check_all(rt: &impl Abort, alloc: Global, asked: OptimisationCall, cases: &str) {
    for row in cases.lines() {
        check(rt, alloc, asked, &case_behind(rt, row, asked.words));
    }
}
