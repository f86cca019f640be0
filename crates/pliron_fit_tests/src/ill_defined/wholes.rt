//! Calls that may change what is inside an operation, on each operation with regions.
use super::left::{answer_if_any, check_left, whole_line};
use super::texts::{HOLDERS, MOST, TEXTS, name_and_text};
use super::trees::holders_of;
use pliron_core::{Context, IRStatus, Operation, Ptr};
use pliron_dialect_bench::Bench;
use pliron_laws::{OptError, is_well_linked};
use pliron_opt_cfg::{fold_branches, merge_inside_op, remove_blocks_inside_op, simplify_cfg};
use pliron_opt_dce::dce;
use pliron_opt_sccp::{sccp, sccp_counted, sccp_through};
use pliron_pass::{AnalysisManager, BenchFacts};
use pliron_pass_fit::{RunError, run_checked};
use pliron_pass_pipeline::PassStep;
use pliron_test_cases::cases::read;
use pliron_test_cases::listener::CountingListener;
use std::alloc::Global;
use std::process::Abort;

/// A call on an operation.
#[derive(Clone, Copy, Debug, PartialEq, Eq)]
enum Call {
    Propagate,
    PropagateCounted,
    PropagateThrough,
    Eliminate,
    Fold,
    Remove,
    Merge,
    Simplify,
    /// The pass of this name, by a checked run.
    Checked(&'static str),
}

static CALLS: [Call; 11] = [
    Call::Propagate,
    Call::PropagateCounted,
    Call::PropagateThrough,
    Call::Eliminate,
    Call::Fold,
    Call::Remove,
    Call::Merge,
    Call::Simplify,
    Call::Checked("sccp"),
    Call::Checked("dce"),
    Call::Checked("simplify-cfg"),
];

// Whether a second call finds nothing more to do. Propagation makes its constants anew, and simplification may
// fold what its merging made known.
fn settles(call: Call) -> bool {
    matches!(
        call,
        Call::Eliminate | Call::Fold | Call::Remove | Call::Merge | Call::Checked("dce")
    )
}

fn run_pass(
    rt: &impl Abort,
    alloc: Global,
    root: Ptr<Operation>,
    ctx: &mut Context,
    name: &str,
) -> Result<IRStatus, OptError> {
    let mut pass: PassStep<Bench, BenchFacts> = PassStep::from_name(name).expect(rt, "a pass");
    let mut analyses = AnalysisManager::new(alloc);
    assert!(rt; root.is_live(ctx));
    match run_checked(&mut pass, alloc, root, ctx, &mut analyses) {
        Ok(status) => Ok(status),
        Err(RunError::Fault(fault)) => Err(fault),
        Err(RunError::NotLinked) => panic!(rt; "not linked"),
    }
}

// What the call answers, of which each change had room where it takes a rewriter.
fn answer(
    rt: &impl Abort,
    alloc: Global,
    root: Ptr<Operation>,
    ctx: &mut Context,
    call: Call,
) -> Result<IRStatus, OptError> {
    assert!(rt; root.is_live(ctx));
    assert!(rt; is_well_linked::<Bench>(root, ctx));
    let mut rewriter = CountingListener::new();
    let reported = match call {
        Call::Propagate => sccp::<Bench>(alloc, root, ctx),
        Call::PropagateCounted => {
            let (status, _) = sccp_counted::<Bench>(alloc, root, ctx)?;
            Ok(status)
        }
        Call::PropagateThrough => sccp_through::<Bench, CountingListener>(
            alloc,
            root,
            ctx,
            &mut rewriter,
        ),
        Call::Eliminate => dce::<Bench>(alloc, root, ctx),
        Call::Fold => fold_branches::<Bench, CountingListener>(alloc, root, ctx, &mut rewriter),
        Call::Remove => remove_blocks_inside_op::<Bench, CountingListener>(
            alloc,
            root,
            ctx,
            &mut rewriter,
        ),
        Call::Merge => merge_inside_op::<Bench, CountingListener>(alloc, root, ctx, &mut rewriter),
        Call::Simplify => simplify_cfg::<Bench>(alloc, root, ctx),
        Call::Checked(name) => run_pass(rt, alloc, root, ctx, name),
    };
    assert!(rt; rewriter.had_room());
    reported
}

// Calls it on the operation with regions that has this index, if there is one.
fn check_in(
    rt: &impl Abort,
    alloc: Global,
    ctx: &mut Context,
    case: &str,
    index: usize,
    call: Call,
) -> bool {
    let (name, text) = name_and_text(rt, case);
    let whole = read(alloc, ctx, text).expect(rt, name);
    let Some(root) = holders_of(rt, alloc, whole, ctx).get(index).copied() else {
        return false;
    };
    let before = whole_line(rt, alloc, whole, ctx);
    let reported = answer_if_any(rt, answer(rt, alloc, root, ctx, call));
    check_left(rt, alloc, whole, ctx, &before, reported);
    if reported.is_some() && settles(call) {
        let again = answer_if_any(rt, answer(rt, alloc, root, ctx, call));
        assert!(rt; again == Some(IRStatus::Unchanged), "{call:?} {name}");
    }
    true
}

fn check(rt: &impl Abort, alloc: Global, case: &str, index: usize, call: Call) -> bool {
    let mut ctx = Context::new(alloc);
    check_in(rt, alloc, &mut ctx, case, index, call)
}

// Calls it on each operation with regions, and answers how many these are.
fn check_all(rt: &impl Abort, alloc: Global, case: &str, call: Call) -> usize {
    for index in 0..MOST {
        if !check(rt, alloc, case, index, call) {
            return index;
        }
    }
    MOST
}

#[test]
fn each_call_answers(rt: HostRuntime) {
    for call in &CALLS {
        let mut count = 0usize;
        for case in TEXTS.lines() {
            count = count.saturating_add(check_all(&rt, rt.alloc(), case, *call));
        }
        assert!(&rt; count == HOLDERS);
    }
}
