//! Each operation with regions, of texts made at random, is fit to run exactly where the definition says so,
//! and the functions of texts that are well defined by construction are.
use super::by_definition::{Use, all_uses, is_fit_by_definition};
use super::ill_defined::trees::{all_of, holders_of};
use pliron_core::{Context, Operation, Ptr};
use pliron_dialect_bench::Bench;
use pliron_fuzz::{FuzzSubject, Kind};
use pliron_laws::is_well_linked;
use pliron_pass_fit::is_fit;
use pliron_test_cases::cases::read;
use std::alloc::Global;
use std::process::Abort;

/// A third of those that dead code elimination and constant propagation are tested with.
const TEXTS: u64 = 160;

// Whether functions are directly in it.
fn is_module(root: Ptr<Operation>, ctx: &Context) -> bool {
    root.is_live(ctx) && !root.head(ctx).ssa
}

fn compare(
    rt: &impl Abort,
    alloc: Global,
    all: &[Ptr<Operation>],
    uses: &[Use],
    root: Ptr<Operation>,
    ctx: &Context,
) -> bool {
    assert!(rt; root.is_live(ctx));
    assert!(rt; is_well_linked::<Bench>(root, ctx));
    let fit = is_fit::<Bench>(alloc, root, ctx).expect(rt, "memory");
    let by_definition = is_fit_by_definition(rt, alloc, all, uses, root, ctx);
    let key = root.key();
    assert!(rt; fit == by_definition, "operation {key}");
    fit
}

// Whether the operation is the whole, or is directly in it where that is a module, and is none itself.
fn is_function(op: Ptr<Operation>, whole: Ptr<Operation>, ctx: &Context) -> bool {
    if !op.is_live(ctx) || is_module(op, ctx) {
        return false;
    }
    op == whole || (is_module(whole, ctx) && op.get_parent_op(ctx) == Some(whole))
}

fn compare_roots(
    rt: &impl Abort,
    alloc: Global,
    ctx: &Context,
    whole: Ptr<Operation>,
    subject: &FuzzSubject,
) {
    let all = all_of(rt, alloc, whole, ctx);
    let uses = all_uses(rt, alloc, &all, ctx);
    for root in &holders_of(rt, alloc, whole, ctx) {
        let fit = compare(rt, alloc, &all, &uses, *root, ctx);
        let is_defined = subject.kind == Kind::Defined && is_function(*root, whole, ctx);
        assert!(rt; fit || !is_defined);
    }
}

fn compare_all(rt: &impl Abort, alloc: Global, ctx: &mut Context, subject: &FuzzSubject) {
    if let Some(whole) = read(alloc, ctx, &subject.text) {
        compare_roots(rt, alloc, ctx, whole, subject);
    }
}

fn compare_text(rt: &impl Abort, alloc: Global, seed: u64) {
    let subject = FuzzSubject::new(alloc, seed).expect(rt, "memory");
    let mut ctx = Context::new(alloc);
    compare_all(rt, alloc, &mut ctx, &subject);
}

fn compare_texts(rt: &impl Abort, alloc: Global, first: u64) {
    for place in 0..TEXTS {
        compare_text(rt, alloc, first.wrapping_add(place));
    }
}

#[test]
fn first_texts(rt: HostRuntime) {
    compare_texts(&rt, rt.alloc(), 0);
}

#[test]
fn second_texts(rt: HostRuntime) {
    compare_texts(&rt, rt.alloc(), 160);
}

#[test]
fn third_texts(rt: HostRuntime) {
    compare_texts(&rt, rt.alloc(), 320);
}
