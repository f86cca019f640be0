//! Calls that read a tree: whether it is fit to run, its contents, what is cached of it, its runs and its texts.
use super::texts::{TEXTS, name_and_text};
use super::trees::{all_of, blocks_of, holders_of};
use pliron_core::{BasicBlock, Children, Contents, Context, Operation, Ptr};
use pliron_dialect_bench::Bench;
use pliron_laws::{Dialect, Interface, edges_last, is_admitted, is_well_linked};
use pliron_pass::{AnalysisManager, BenchFactKind, BenchFacts, verify_operation};
use pliron_pass_fit::{find_violation, fit_roots, is_fit};
use pliron_test_cases::cases::read;
use pliron_test_cases::runs::sights;
use std::alloc::Global;
use std::process::Abort;

// The violation, the answer and the list of roots agree on whether it is fit to run.
fn check_fit(rt: &impl Abort, alloc: Global, root: Ptr<Operation>, ctx: &Context) {
    assert!(rt; root.is_live(ctx));
    let violation = find_violation::<Bench>(alloc, root, ctx).expect(rt, "memory");
    let fit = is_fit::<Bench>(alloc, root, ctx).expect(rt, "memory");
    let roots = fit_roots::<Bench>(alloc, &[root], ctx).expect(rt, "memory");
    assert!(rt; violation.is_none() == fit);
    assert!(rt; roots.is_empty() != fit);
}

// Not all of them are fit to run.
fn check_hostile(rt: &impl Abort, alloc: Global, holders: &[Ptr<Operation>], ctx: &Context) {
    let fit = fit_roots::<Bench>(alloc, holders, ctx).expect(rt, "memory");
    assert!(rt; fit.len() < holders.len());
}

// It is well linked, as each operation of a text is.
fn check_linked(rt: &impl Abort, root: Ptr<Operation>, ctx: &Context) {
    assert!(rt; root.is_live(ctx));
    assert!(rt; is_well_linked::<Bench>(root, ctx));
    assert!(rt; edges_last(root, ctx));
    assert!(rt; is_admitted::<Bench>(root, ctx));
}

// Whether each edge forwards as many values as its block has arguments.
fn edges_fit(rt: &impl Abort, alloc: Global, op: Ptr<Operation>, ctx: &Context) -> bool {
    ctx.well_formed();
    assert!(rt; op.is_live(ctx));
    assert!(rt; Bench::is_branch(op, ctx));
    for i in 0..op.num_successor(ctx) {
        let block = op.get_successor(ctx, i);
        let values = Bench::successor_operands(alloc, op, ctx, i).expect(rt, "memory");
        assert!(rt; block.is_live(ctx));
        if values.len() != block.num_argument(ctx) {
            return false;
        }
    }
    true
}

// A fault is found exactly where a branch that may fold forwards another number of values than its block has
// arguments.
fn check_verified(rt: &impl Abort, alloc: Global, root: Ptr<Operation>, ctx: &Context) {
    let mut is_faultless = true;
    for op in &all_of(rt, alloc, root, ctx) {
        assert!(rt; op.is_live(ctx));
        if Bench::implements(*op, ctx, Interface::BranchFold) {
            is_faultless &= edges_fit(rt, alloc, *op, ctx);
        }
    }
    assert!(rt; root.is_live(ctx));
    assert!(rt; verify_operation::<Bench>(alloc, root, ctx).is_ok() == is_faultless);
}

// How many operations are inside it.
fn count_contents(rt: &impl Abort, root: Ptr<Operation>, ctx: &Context) -> usize {
    assert!(rt; root.is_live(ctx));
    let mut count = 0usize;
    for op in Contents::new(root, ctx) {
        assert!(rt; op.is_live(ctx));
        assert!(rt; op.is_inside(root, ctx));
        count = count.saturating_add(1);
    }
    count
}

// How many of them are directly inside it.
fn count_children(rt: &impl Abort, root: Ptr<Operation>, ctx: &Context) -> usize {
    assert!(rt; root.is_live(ctx));
    let mut count = 0usize;
    for op in Children::new(root, ctx) {
        assert!(rt; op.is_live(ctx));
        assert!(rt; op.get_parent_op(ctx) == Some(root));
        count = count.saturating_add(1);
    }
    count
}

// What is cached of this kind, as a number.
fn fact(
    rt: &impl Abort,
    analyses: &mut AnalysisManager<BenchFacts>,
    kind: BenchFactKind,
    root: Ptr<Operation>,
    ctx: &Context,
) -> u128 {
    assert!(rt; root.is_live(ctx));
    match analyses.get_analysis(kind, root, ctx).expect(rt, "memory") {
        BenchFacts::Edges(pairs) => pairs.len() as u128,
        BenchFacts::Size(size) => *size as u128,
        BenchFacts::Total(total) => *total,
    }
}

// The total is that of edges and size, and the size is that of a walk.
fn check_analyses(rt: &impl Abort, alloc: Global, root: Ptr<Operation>, ctx: &Context) {
    let mut analyses = AnalysisManager::new(alloc);
    let total = fact(rt, &mut analyses, BenchFactKind::Total, root, ctx);
    let size = fact(rt, &mut analyses, BenchFactKind::Size, root, ctx);
    let edges = fact(rt, &mut analyses, BenchFactKind::Edges, root, ctx);
    assert!(rt; total == size.saturating_add(edges));
    assert!(rt; size == count_contents(rt, root, ctx) as u128);
    assert!(rt; count_children(rt, root, ctx) as u128 <= size);
}

// The block is a predecessor of each of its successors, and a successor of each of its predecessors.
fn check_neighbours(rt: &impl Abort, block: Ptr<BasicBlock>, ctx: &Context) {
    ctx.well_formed();
    assert!(rt; block.is_live(ctx));
    assert!(rt; block.has_single_predecessor(ctx) == (block.num_pred(ctx) == 1));
    for i in 0..block.num_succ(ctx) {
        let next = block.get_succ(ctx, i);
        assert!(rt; next.is_live(ctx));
        assert!(rt; next.num_pred(ctx) != 0);
        assert!(rt; next.num_use(ctx) >= next.num_pred(ctx));
    }
}

// Runs end, are cut short or trap, and a second time as the first time.
fn check_runs(rt: &impl Abort, alloc: Global, root: Ptr<Operation>, ctx: &Context) {
    let first = sights(alloc, ctx, root, MOVES).expect(rt, "memory");
    let second = sights(alloc, ctx, root, MOVES).expect(rt, "memory");
    assert!(rt; first == second);
}

/// As many moves as any run of these texts shows something by.
const MOVES: usize = 60;

// What dialects are asked of an operation.
fn check_asked(rt: &impl Abort, op: Ptr<Operation>, ctx: &Context) {
    assert!(rt; op.is_live(ctx));
    assert!(rt; Bench::admits(op, ctx));
    assert!(rt; op.num_successor(ctx) == 0 || Bench::is_terminator(op, ctx));
    assert!(rt; !Bench::is_branch(op, ctx) || op.num_successor(ctx) != 0);
}

fn check_holder(rt: &impl Abort, alloc: Global, holder: Ptr<Operation>, ctx: &Context) {
    check_fit(rt, alloc, holder, ctx);
    check_linked(rt, holder, ctx);
    check_verified(rt, alloc, holder, ctx);
    check_analyses(rt, alloc, holder, ctx);
    check_runs(rt, alloc, holder, ctx);
    for block in &blocks_of(rt, alloc, holder, ctx) {
        check_neighbours(rt, *block, ctx);
    }
}

fn check_holders(rt: &impl Abort, alloc: Global, whole: Ptr<Operation>, ctx: &Context) {
    let holders = holders_of(rt, alloc, whole, ctx);
    check_hostile(rt, alloc, &holders, ctx);
    for holder in &holders {
        check_holder(rt, alloc, *holder, ctx);
    }
}

fn check_case(rt: &impl Abort, alloc: Global, ctx: &mut Context, case: &str) {
    let (name, text) = name_and_text(rt, case);
    let whole = read(alloc, ctx, text).expect(rt, name);
    check_holders(rt, alloc, whole, ctx);
    for op in &all_of(rt, alloc, whole, ctx) {
        check_asked(rt, *op, ctx);
    }
}

fn check(rt: &impl Abort, alloc: Global, case: &str) {
    let mut ctx = Context::new(alloc);
    check_case(rt, alloc, &mut ctx, case)
}

#[test]
fn each_call_that_reads_answers(rt: HostRuntime) {
    for case in TEXTS.lines() {
        check(&rt, rt.alloc(), case);
    }
}
