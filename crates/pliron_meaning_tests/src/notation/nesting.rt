//! Regions in one another.
use super::check_printed;
use pliron_core::{Attrs, BasicBlock, Context, Head, IRRewriter, Operation, Ptr, Rewriter};
use pliron_test_cases::bench::BenchKind;
use pliron_test_cases::cases::{fields, line};
use std::alloc::Global;
use std::process::Abort;

// The text of so many operations in one another, at least two: of the first, the last and all between.
fn nested_text(rt: &impl Abort, alloc: Global, case: &str, depth: usize) -> String {
    let (first, rest) = fields(case).expect(rt, "two fields");
    let (between, last) = fields(rest).expect(rt, "two fields");
    let mut text = String::from_str(alloc, first).expect(rt, "memory");
    for _ in 2..depth {
        text.push_str(" ").expect(rt, "memory");
        text.push_str(between).expect(rt, "memory");
    }
    text.push_str(" ").expect(rt, "memory");
    text.push_str(last).expect(rt, "memory");
    for _ in 1..depth {
        text.push_str(" }").expect(rt, "memory");
    }
    text
}

static NESTS: &str = "\
modules -- mod { b0(): / mod { b0(): / mod { }
modules round a function -- mod { b0(): / mod { b0(): / func { b0(): }
boxes -- func { b0(): / box { b0(): / box { }
scopes -- func { b0(): / scope { b0(): / scope { b0(): }";

fn check_nest(rt: &impl Abort, alloc: Global, name: &str, nest: &str) {
    let most = nested_text(rt, alloc, nest, 64);
    check_printed(rt, alloc, name, &most, &most);
    let more = nested_text(rt, alloc, nest, 65);
    check_printed(rt, alloc, name, &more, "unreadable");
}

#[test]
fn sixty_four_regions_in_one_another(rt: HostRuntime) {
    let alloc = rt.alloc();
    for case in NESTS.lines() {
        let (name, nest) = case.split_once(" -- ").expect(&rt, "a name");
        check_nest(&rt, alloc, name, nest);
    }
}

// A new operation of this kind with an empty region, in no block.
fn holder(rt: &impl Abort, alloc: Global, ctx: &mut Context, kind: BenchKind) -> Ptr<Operation> {
    let head = Head {
        kind: kind.number(),
        ssa: true,
        attrs: Attrs::new(Vec::new(alloc)),
    };
    Operation::create(ctx, head, 0, 1).expect(rt, "memory")
}

// A new operation of this kind, in no block, around another one.
fn around(
    rt: &impl Abort,
    alloc: Global,
    ctx: &mut Context,
    kind: BenchKind,
    inner: Ptr<Operation>,
) -> Ptr<Operation> {
    let outer = holder(rt, alloc, ctx, kind);
    assert!(rt; outer.is_live(ctx));
    assert!(rt; outer.num_region(ctx) == 1);
    let block = BasicBlock::create(ctx, outer.get_region(ctx, 0), 0).expect(rt, "memory");
    assert!(rt; block.is_live(ctx));
    assert!(rt; inner.is_live(ctx));
    assert!(rt; !inner.holds_block(block, ctx));
    IRRewriter::new().move_operation_to_end(ctx, inner, block);
    outer
}

// A function around 2,999 boxes.
fn deep_in(rt: &impl Abort, alloc: Global, ctx: &mut Context) -> String {
    let mut root = holder(rt, alloc, ctx, BenchKind::Box);
    for _ in 2..3000 {
        root = around(rt, alloc, ctx, BenchKind::Box, root);
    }
    let root = around(rt, alloc, ctx, BenchKind::Func, root);
    line(alloc, ctx, root).expect(rt, "a line")
}

fn deep(rt: &impl Abort, alloc: Global) -> String {
    let mut ctx = Context::new(alloc);
    deep_in(rt, alloc, &mut ctx)
}

// A tree may be deeper than any text.
#[test]
fn deep_tree_is_printed(rt: HostRuntime) {
    let alloc = rt.alloc();
    let want = nested_text(&rt, alloc, "func { b0(): / box { b0(): / box { }", 3000);
    assert!(&rt; deep(&rt, alloc) == want);
    check_printed(&rt, alloc, "a deep text", &want, "unreadable");
}
