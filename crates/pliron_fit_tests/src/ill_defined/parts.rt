//! Calls that may change what is inside a region or a block, on each region and each block.
ghost use Rattle.pliron_dialect_bench.specs.BenchMoves.{bench};
ghost use Rattle.pliron_core.specs.Tree.{IsLive};
ghost use Rattle.pliron_laws.specs.Linked.{IsWellLinked};

use super::left::{answer_if_any, check_left, whole_line};
use super::texts::{BLOCKS, HOLDERS, MOST, TEXTS, name_and_text};
use super::trees::{blocks_of, holders_of};
use pliron_core::{BasicBlock, Context, IRStatus, Operation, Ptr};
use pliron_dialect_bench::Bench;
use pliron_laws::{OptError, is_well_linked};
use pliron_opt_cfg::{
    merge_inside_block, merge_inside_region, remove_blocks_inside_block,
    remove_blocks_inside_region,
};
use pliron_test_cases::cases::read;
use pliron_test_cases::listener::CountingListener;
use std::alloc::Global;
use std::process::Abort;

/// What is done to the region or the block.
#[derive(Clone, Copy, Debug, PartialEq, Eq)]
enum Call {
    Remove,
    Merge,
}

static CALLS: [Call; 2] = [Call::Remove, Call::Merge];

/// A block, and the operation that it is directly in.
#[derive(Clone, Copy)]
struct HeldBlock {
    holder: Ptr<Operation>,
    block: Ptr<BasicBlock>,
}

/// What is called on: the region of the operation, or a block in it.
#[derive(Clone, Copy)]
enum Target {
    Region(Ptr<Operation>),
    Block(HeldBlock),
}

// What the call answers for the region of the parent operation.
fn in_region(
    rt: &impl Abort,
    alloc: Global,
    holder: Ptr<Operation>,
    ctx: &mut Context,
    call: Call,
    rewriter: &mut CountingListener,
) -> Result<IRStatus, OptError>
    requires live { IsLive ctx.old.tree holder }
    requires linked { IsWellLinked bench ctx.old.tree holder }
{
    ctx.well_formed();
    assert!(rt; holder.num_region(ctx) == 1);
    let region = holder.get_region(ctx, 0);
    assert!(rt; region.get_parent_op(ctx) == holder);
    match call {
        Call::Remove => {
            remove_blocks_inside_region::<Bench, CountingListener>(alloc, region, ctx, rewriter)
        }
        Call::Merge => merge_inside_region::<Bench, CountingListener>(alloc, region, ctx, rewriter),
    }
}

// What the call answers for the block, which is directly in the parent operation.
fn in_block(
    rt: &impl Abort,
    alloc: Global,
    held: &HeldBlock,
    ctx: &mut Context,
    call: Call,
    rewriter: &mut CountingListener,
) -> Result<IRStatus, OptError>
    requires live { IsLive ctx.old.tree held.now.holder }
    requires linked { IsWellLinked bench ctx.old.tree held.now.holder }
{
    ctx.well_formed();
    let (holder, block) = (held.holder, held.block);
    assert!(rt; holder.num_region(ctx) == 1);
    assert!(rt; block.is_live(ctx));
    let region = holder.get_region(ctx, 0);
    assert!(rt; block.get_parent_region(ctx) == Some(region));
    assert!(rt; region.get_parent_op(ctx) == holder);
    match call {
        Call::Remove => remove_blocks_inside_block::<Bench, CountingListener>(
            alloc, block, ctx, rewriter,
        ),
        Call::Merge => merge_inside_block::<Bench, CountingListener>(alloc, block, ctx, rewriter),
    }
}

// Asserts that the operation may be called on.
fn assert_callable(rt: &impl Abort, holder: Ptr<Operation>, ctx: &Context)
    ensures live { IsLive ctx.now.tree holder }
    ensures linked { IsWellLinked bench ctx.now.tree holder }
{
    assert!(rt; holder.is_live(ctx));
    assert!(rt; is_well_linked::<Bench>(holder, ctx));
}

// What the call answers for the region or the block; each change had room.
fn answer(
    rt: &impl Abort,
    alloc: Global,
    target: &Target,
    ctx: &mut Context,
    call: Call,
) -> Option<IRStatus> {
    let mut rewriter = CountingListener::new();
    let reported = match target {
        Target::Region(holder) => {
            assert_callable(rt, *holder, ctx);
            in_region(rt, alloc, *holder, ctx, call, &mut rewriter)
        }
        Target::Block(held) => {
            assert_callable(rt, held.holder, ctx);
            in_block(rt, alloc, held, ctx, call, &mut rewriter)
        }
    };
    assert!(rt; rewriter.had_room());
    answer_if_any(rt, reported)
}

// Calls it once, tests its answer and the whole, and says whether it answered.
fn check_once(
    rt: &impl Abort,
    alloc: Global,
    whole: Ptr<Operation>,
    target: &Target,
    ctx: &mut Context,
    call: Call,
) -> bool {
    let before = whole_line(rt, alloc, whole, ctx);
    let reported = answer(rt, alloc, target, ctx, call);
    check_left(rt, alloc, whole, ctx, &before, reported);
    reported.is_some()
}

// A further call finds nothing more to do.
fn check_settled(rt: &impl Abort, alloc: Global, target: &Target, ctx: &mut Context, call: Call) {
    let again = answer(rt, alloc, target, ctx, call);
    assert!(rt; again == Some(IRStatus::Unchanged));
}

// Calls it twice.
fn check_twice(
    rt: &impl Abort,
    alloc: Global,
    whole: Ptr<Operation>,
    target: &Target,
    ctx: &mut Context,
    call: Call,
) {
    if check_once(rt, alloc, whole, target, ctx, call) {
        check_settled(rt, alloc, target, ctx, call);
    }
}

/// What is called on.
#[derive(Clone, Copy)]
enum Parts {
    Regions,
    Blocks,
}

/// A call on each of some parts.
#[derive(Clone, Copy)]
struct CallOnParts {
    parts: Parts,
    call: Call,
}

fn push_held(
    rt: &impl Abort,
    alloc: Global,
    holder: Ptr<Operation>,
    ctx: &Context,
    all: &mut Vec<Target>,
) {
    for block in &blocks_of(rt, alloc, holder, ctx) {
        let held = HeldBlock {
            holder,
            block: *block,
        };
        all.push(Target::Block(held)).expect(rt, "memory");
    }
}

// The regions of the whole, or its blocks.
fn all_parts(
    rt: &impl Abort,
    alloc: Global,
    whole: Ptr<Operation>,
    ctx: &Context,
    parts: Parts,
) -> Vec<Target> {
    let mut all = Vec::new(alloc);
    for holder in &holders_of(rt, alloc, whole, ctx) {
        match parts {
            Parts::Regions => all.push(Target::Region(*holder)).expect(rt, "memory"),
            Parts::Blocks => push_held(rt, alloc, *holder, ctx, &mut all),
        }
    }
    all
}

// Calls it on the part with this index. Answers whether there is one.
fn check_part(
    rt: &impl Abort,
    alloc: Global,
    ctx: &mut Context,
    case: &str,
    call: CallOnParts,
    index: usize,
) -> bool {
    let (name, text) = name_and_text(rt, case);
    let whole = read(alloc, ctx, text).expect(rt, name);
    match all_parts(rt, alloc, whole, ctx, call.parts)
        .get(index)
        .copied()
    {
        Some(target) => {
            check_twice(rt, alloc, whole, &target, ctx, call.call);
            true
        }
        None => false,
    }
}

fn check_one(rt: &impl Abort, alloc: Global, case: &str, call: CallOnParts, index: usize) -> bool {
    let mut ctx = Context::new(alloc);
    check_part(rt, alloc, &mut ctx, case, call, index)
}

// Calls it on each part, and answers how many these are.
fn check_all(rt: &impl Abort, alloc: Global, case: &str, call: CallOnParts) -> usize {
    for index in 0..MOST {
        if !check_one(rt, alloc, case, call, index) {
            return index;
        }
    }
    MOST
}

// All texts together have so many parts.
fn check_texts(rt: &impl Abort, alloc: Global, call: CallOnParts, want: usize) {
    let mut count = 0usize;
    for case in TEXTS.lines() {
        count = count.saturating_add(check_all(rt, alloc, case, call));
    }
    assert!(rt; count == want);
}

#[test]
fn each_call_on_a_region_answers(rt: HostRuntime) {
    for call in &CALLS {
        let call = CallOnParts {
            parts: Parts::Regions,
            call: *call,
        };
        check_texts(&rt, rt.alloc(), call, HOLDERS);
    }
}

#[test]
fn each_call_on_a_block_answers(rt: HostRuntime) {
    for call in &CALLS {
        let call = CallOnParts {
            parts: Parts::Blocks,
            call: *call,
        };
        check_texts(&rt, rt.alloc(), call, BLOCKS);
    }
}
