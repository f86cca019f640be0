//! The public names of `pliron_test_cases`, at their places. What is missing here is named so where it is
//! used: texts in `pliron_test_cases::cases`, `lose_forwarded` in `pliron_test_cases::losses`, runs, the tiny dialect's
//! answers and the calls of `rewrites` in the tests of the evaluator.
use pliron_core::{Context, IRRewriter};
use pliron_test_cases::bench::laws::{folds_are_monotone, folds_have_one_outcome};
use pliron_test_cases::bench::{Bench, BenchKind};
use pliron_test_cases::cases::read;
use pliron_test_cases::evaluator::{Evaluate, Move};
use pliron_test_cases::theory::{
    answers_are_read, arguments_go, blocks_are_joined, branch_folds_keep_links,
    branch_folds_keep_runs, branch_folds_replace, branches_are_refolded, branches_are_replaced,
    closed_facts_are_read, constant_folds_keep_runs, constants_are_made,
    constants_first_keep_links, dead_parts_go, edges_stay, facts_are_followed, facts_are_read,
    fewer_roots_kept, folds_keep_links, one_edge_is_taken, operands_are_renamed,
    operands_have_data, passes_compose, roots_may_be_chosen, runs_kept, sound_facts_are_read,
    unused_arguments_go,
};
use pliron_test_cases::{
    BlockArgRemoval, BranchOpFoldInterface, ConstFoldInterface, Dialect, HasMeaning, Interface,
    OptError, RegionBranchOpInterface, Room, SideEffects, Tiny, TinyKind, edges_last,
};
use std::alloc::Global;
use std::process::Abort;

// A type has each trait of a dialect.
fn is_dialect<D>()
where
    D: HasMeaning + SideEffects + BlockArgRemoval + ConstFoldInterface + BranchOpFoldInterface,
    D: RegionBranchOpInterface + Dialect + Evaluate,
{}

fn has_room<R: Room>() {}

fn is_type<T>() {}

#[test]
fn laws_of_runs(_rt: HostRuntime) {
    runs_kept();
    fewer_roots_kept();
    roots_may_be_chosen::<Bench>();
    operands_have_data();
    dead_parts_go();
    constants_are_made();
    operands_are_renamed();
    facts_are_read::<Bench>();
    sound_facts_are_read::<Bench>();
    closed_facts_are_read::<Tiny>();
    facts_are_followed::<Bench>();
    answers_are_read::<Bench>();
    blocks_are_joined();
    one_edge_is_taken::<Bench>();
    branches_are_replaced();
    branches_are_refolded();
    constant_folds_keep_runs::<Bench>();
    branch_folds_keep_runs::<Bench>();
    branch_folds_keep_links::<Bench>();
    branch_folds_replace::<Bench>();
    arguments_go();
    unused_arguments_go::<Tiny>();
    passes_compose();
    edges_stay();
    constants_first_keep_links();
    folds_keep_links();
    folds_are_monotone();
    folds_have_one_outcome();
}

fn names_in(rt: &impl Abort, alloc: Global, ctx: &mut Context) {
    let root = read(alloc, ctx, "mod { }").expect(rt, "a text");
    assert!(rt; root.is_live(ctx));
    assert!(rt; edges_last(root, ctx));
    assert!(rt; !Bench::implements(root, ctx, Interface::BlockArgRemoval));
    assert!(rt; OptError::Memory != OptError::LiveUse);
    is_type::<Move>();
    is_dialect::<Bench>();
    is_dialect::<Tiny>();
    has_room::<IRRewriter>();
}

#[test]
fn names_of_users(rt: HostRuntime) {
    let alloc = rt.alloc();
    let mut ctx = Context::new(alloc);
    names_in(&rt, alloc, &mut ctx)
}

// What a kind says of its operations.
#[test]
fn kinds(rt: HostRuntime) {
    assert!(rt; TinyKind::Const.number() == 0);
    assert!(rt; BenchKind::from_word(b"scope") == Some(BenchKind::Scope));
    assert!(rt; BenchKind::Scope.word() == "scope");
    assert!(rt; BenchKind::Scope.number() == 10);
    assert!(rt; BenchKind::from_number(10) == Some(BenchKind::Scope));
    assert!(rt; BenchKind::Scope.is_ssa());
    assert!(rt; !BenchKind::Scope.is_top());
    assert!(rt; BenchKind::Scope.result_count() == 0);
    assert!(rt; BenchKind::Scope.region_count() == 1);
    assert!(rt; BenchKind::Cbr.successor_count() == 2);
}
