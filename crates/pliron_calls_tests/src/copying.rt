//! Texts, and what is left of each where blocks of the root are copied into its region.
use pliron_core::{BasicBlock, Context, Operation, Ptr};
use pliron_laws::reads::push_layouts;
use pliron_rewrite_calls::{Copies, copy_blocks, may_copy_blocks};
use pliron_test_cases::cases::{line, number, read, row_of};
use pliron_test_cases::listener::CountingListener;
use std::alloc::Global;
use std::process::Abort;

// A line has a name; how many blocks at the front stay uncopied, and the text; and what is left.
static ROWS: &str = "\
one block -- 0 func { b0(x): y = add x x; print y; ret y } \
    => func { b0(v0): v1 = add v0 v0; print v1; ret v1; b1(v2): v3 = add v2 v2; print v3; ret v3 }
a loop -- 0 func { b0(x): br b1(x); b1(y): z = add y x; cbr z b1(z) b2(); b2(): ret z } \
    => func { b0(v0): br b1(v0); b1(v1): v2 = add v1 v0; cbr v2 b1(v2) b2(); b2(): ret v2; b3(v3): br b4(v3); b4(v4): v5 = add v4 v3; cbr v5 b4(v5) b5(); b5(): ret v5 }
what is behind is named before -- 0 func { b0(): br b2(); b1(): print x; ret; b2(): x = const 7; br b1() } \
    => func { b0(): br b2(); b1(): print v0; ret; b2(): v0 = const 7; br b1(); b3(): br b5(); b4(): print v1; ret; b5(): v1 = const 7; br b4() }
what is not copied stays named -- 1 func { b0(x): y = add x x; br b1(y); b1(z): w = add z y; print x; cbr w b1(w) b2(); b2(): ret w } \
    => func { b0(v0): v1 = add v0 v0; br b1(v1); b1(v2): v3 = add v2 v1; print v0; cbr v3 b1(v3) b2(); b2(): ret v3; b3(v4): v5 = add v4 v1; print v0; cbr v5 b3(v5) b4(); b4(): ret v5 }
only the last block -- 2 func { b0(x): br b1(); b1(): br b2(); b2(): print x; br b1() } \
    => func { b0(v0): br b1(); b1(): br b2(); b2(): print v0; br b1(); b3(): print v0; br b1() }
nothing -- 1 func { b0(): ret } => func { b0(): ret }
";

// Whether the arguments of the block are known as copied to those of its copy.
fn are_arguments_known(
    block: Ptr<BasicBlock>,
    copy: Ptr<BasicBlock>,
    copies: &Copies,
    ctx: &Context,
) -> bool {
    if !block.is_live(ctx) {
        return false;
    }
    if !copy.is_live(ctx) {
        return false;
    }
    if block.num_argument(ctx) != copy.num_argument(ctx) {
        return false;
    }
    for j in 0..block.num_argument(ctx) {
        let Some(value) = copies.copy_of_value(block.get_argument(ctx, j)) else {
            return false;
        };
        if value != copy.get_argument(ctx, j) {
            return false;
        }
    }
    true
}

// Whether the copy of the block is known, and is itself no block that was copied.
fn is_known(block: Ptr<BasicBlock>, copies: &Copies, ctx: &Context) -> bool {
    let Some(copy) = copies.copy_of_block(block) else {
        return false;
    };
    copies.copy_of_block(copy).is_none() && are_arguments_known(block, copy, copies, ctx)
}

fn are_all_known(blocks: &[Ptr<BasicBlock>], copies: &Copies, ctx: &Context) -> bool {
    for block in blocks {
        if !is_known(*block, copies, ctx) {
            return false;
        }
    }
    true
}

// Whether the copies are known by the blocks and the arguments that were copied.
fn are_known(
    alloc: Global,
    blocks: &[Ptr<BasicBlock>],
    root: Ptr<Operation>,
    ctx: &mut Context,
    rewriter: &mut CountingListener,
) -> Option<bool> {
    if !root.is_live(ctx) {
        return None;
    }
    if root.num_region(ctx) == 0 {
        return None;
    }
    let region = root.get_region(ctx, 0);
    let may = may_copy_blocks(alloc, blocks, ctx).ok()?;
    if !may {
        return None;
    }
    let copies = copy_blocks(alloc, blocks, region, ctx, rewriter).ok()?;
    Some(are_all_known(blocks, &copies, ctx))
}

fn copy(alloc: Global, ctx: &mut Context, asked: &str) -> Option<String> {
    let (skipped, text) = asked.split_once(' ')?;
    let root = read(alloc, ctx, text)?;
    let mut blocks: Vec<Ptr<BasicBlock>> = Vec::new(alloc);
    push_layouts(root, ctx, &mut blocks).ok()?;
    let from = number(skipped)?;
    if from > blocks.len() {
        return None;
    }
    let mut rewriter = CountingListener::new();
    if !are_known(alloc, &blocks.as_slice()[from..], root, ctx, &mut rewriter)? {
        return None;
    }
    if !rewriter.had_room() {
        return None;
    }
    line(alloc, ctx, root)
}

fn check_row(rt: &impl Abort, alloc: Global, row: &str) {
    let row = row_of(row).expect(rt, "a row");
    let left = copy(alloc, &mut Context::new(alloc), row.asked).expect(rt, "the whole");
    assert_eq!(rt; left.as_str(), row.want, "{}", row.name);
}

#[test]
fn blocks_are_copied(rt: HostRuntime) {
    for row in ROWS.lines() {
        check_row(&rt, rt.alloc(), row);
    }
}
