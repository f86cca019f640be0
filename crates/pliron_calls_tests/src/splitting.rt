//! Texts, and what is left of each where a block is split behind an operation.
use pliron_core::Context;
use pliron_rewrite_calls::split_block_behind;
use pliron_test_cases::cases::{line, number, operation_at, read, row_of};
use pliron_test_cases::listener::CountingListener;
use std::alloc::Global;
use std::process::Abort;

// A line has a name; the place of the operation, how many arguments the new block gets, and the text; and what is left.
static ROWS: &str = "\
in the middle -- 0 0 func { b0(x): print x; print x; ret x } => func { b0(v0): print v0; b1(): print v0; ret v0 }
nothing behind -- 0 0 func { b0(x): ret x } => func { b0(v0): ret v0; b1(): }
with arguments -- 0 2 func { b0(x): print x; ret x } => func { b0(v0): print v0; b1(v1, v2): ret v0 }
the last of three blocks -- 1 1 func { b0(x): print x; print x; br b1(); b1(): ret x } \
    => func { b0(v0): print v0; print v0; b1(): ret v0; b2(v1): br b1() }
a region moves -- 0 0 func { b0(x): print x; box { b0(): print x }; ret } => func { b0(v0): print v0; b1(): box { b0(): print v0 }; ret }
";

fn split(alloc: Global, ctx: &mut Context, asked: &str) -> Option<String> {
    let (place, rest) = asked.split_once(' ')?;
    let (arguments, text) = rest.split_once(' ')?;
    let root = read(alloc, ctx, text)?;
    let op = operation_at(ctx, root, place)?;
    if !op.is_live(ctx) || op.get_parent_block(ctx).is_none() {
        return None;
    }
    let mut rewriter = CountingListener::new();
    split_block_behind(alloc, op, number(arguments)?, ctx, &mut rewriter).ok()?;
    if !rewriter.had_room() {
        return None;
    }
    line(alloc, ctx, root)
}

fn check_row(rt: &impl Abort, alloc: Global, row: &str) {
    let row = row_of(row).expect(rt, "a row");
    let left = split(alloc, &mut Context::new(alloc), row.asked).expect(rt, "the whole");
    assert_eq!(rt; left.as_str(), row.want, "{}", row.name);
}

#[test]
fn blocks_are_split(rt: HostRuntime) {
    for row in ROWS.lines() {
        check_row(&rt, rt.alloc(), row);
    }
}
