//! The sizes of functions, and which may be copied.
use crate::building::function;
use crate::policy::{Routines, RowPolicy};
use pliron_core::Context;
use pliron_opt_inline::{may_be_copied, size_of};
use pliron_test_cases::cases::row_of;
use std::alloc::Global;
use std::process::Abort;

// A line has a name, the blocks of a function, and its size: calls count 1, returns 2, jumps 3, packs 5, prints 6.
static SIZES: &str = "\
one return -- 0: ret 0 => 2
an empty block -- 0: => 0
two blocks -- 1: pack 1 0; jmp 0 0 > 1 | 1: ret 0 2 => 10
calls and prints -- 1: call@f 1 0; print 0 1; ret 0 => 9
what is inside a function inside counts for that -- 1: func@g 0; ret 0 => 2
";

// A line has a name, the blocks of a function, and whether it may be copied where prints may not be.
static COPIES: &str = "\
nothing to refuse -- 1: pack 1 0; ret 0 1 => yes
an empty block -- 0: => yes
a print -- 1: print 0 0; ret 0 => no
a print in another block -- 1: jmp 0 > 1 | 0: print 0 0; ret 0 => no
";

fn size_in(alloc: Global, ctx: &mut Context, blocks: &str) -> Option<String> {
    let made = function(alloc, ctx, "func@f", blocks)?;
    if !made.is_live(ctx) {
        return None;
    }
    let size = size_of::<Routines, RowPolicy>(&RowPolicy::of("-"), made, ctx);
    format!(in alloc; "{size}").ok()
}

fn copied_in(alloc: Global, ctx: &mut Context, blocks: &str) -> Option<bool> {
    let made = function(alloc, ctx, "func@f", blocks)?;
    if !made.is_live(ctx) {
        return None;
    }
    Some(may_be_copied::<Routines, RowPolicy>(&RowPolicy::of("c"), made, ctx))
}

fn check_size(rt: &impl Abort, alloc: Global, row: &str) {
    let row = row_of(row).expect(rt, "a row");
    let size = size_in(alloc, &mut Context::new(alloc), row.asked).expect(rt, "the whole");
    assert_eq!(rt; size.as_str(), row.want, "{}", row.name);
}

fn check_copy(rt: &impl Abort, alloc: Global, row: &str) {
    let row = row_of(row).expect(rt, "a row");
    let may = copied_in(alloc, &mut Context::new(alloc), row.asked).expect(rt, "the whole");
    assert_eq!(rt; may, row.want == "yes", "{}", row.name);
}

#[test]
fn sizes_are_sums(rt: HostRuntime) {
    for row in SIZES.lines() {
        check_size(&rt, rt.alloc(), row);
    }
}

#[test]
fn each_operation_is_asked(rt: HostRuntime) {
    for row in COPIES.lines() {
        check_copy(&rt, rt.alloc(), row);
    }
}
