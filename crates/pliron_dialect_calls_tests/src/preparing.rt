//! Texts, and what is left of each where a call of the root is prepared for inlining.
use crate::routine_kind::RoutineKind;
use pliron_core::{Context, Operation, Ptr};
use pliron_dialect::ByRoles;
use pliron_rewrite_calls::prepare_call;
use pliron_test_cases::cases::{operation_at, row_of};
use pliron_test_cases::listener::CountingListener;
use pliron_text::{print_operation, read_operation};
use std::alloc::Global;
use std::process::Abort;

type Routines = ByRoles<RoutineKind>;

// A line has a name; the place of the call, and the text; and what is left.
static ROWS: &str = "\
two results -- 0 func { b0(x): y, z = call x; print z; ret y z } \
    => func { b0(v0): v1, v2 = call v0; jmp b1(v1, v2); b1(v3, v4): print v4; ret v3 v4 }
no results -- 1 func { b0(x): print x; call x; print x; ret } \
    => func { b0(v0): print v0; call v0; jmp b1(); b1(): print v0; ret }
first in its block -- 0 func { b0(x): y = call x; z = pack y x; ret z y } \
    => func { b0(v0): v1 = call v0; jmp b1(v1); b1(v2): v3 = pack v2 v0; ret v3 v2 }
last before a return -- 1 func { b0(x): y = pack x; z = call y; ret z } \
    => func { b0(v0): v1 = pack v0; v2 = call v1; jmp b1(v2); b1(v3): ret v3 }
uses in other blocks -- 0 func { b0(x): y = call x; jmp b1(y); b1(z): jmp b2(); b2(): ret y z } \
    => func { b0(v0): v1 = call v0; jmp b3(v1); b1(v2): jmp b2(); b2(): ret v3 v2; b3(v3): jmp b1(v3) }
it is a jump already -- 0 func { b0(x): y = call x; jmp b1(y); b1(z): ret z } \
    => func { b0(v0): v1 = call v0; jmp b2(v1); b1(v2): ret v2; b2(v3): jmp b1(v3) }
used by no one -- 0 func { b0(x): y = call x; ret x } => func { b0(v0): v1 = call v0; jmp b1(v1); b1(v2): ret v0 }
";

fn prepare(alloc: Global, ctx: &mut Context, op: Ptr<Operation>) -> Option<()> {
    if !op.is_live(ctx) {
        return None;
    }
    if op.get_next(ctx).is_none() || op.num_region(ctx) != 0 || op.num_successor(ctx) != 0 {
        return None;
    }
    let mut rewriter = CountingListener::new();
    prepare_call::<Routines, CountingListener>(alloc, op, ctx, &mut rewriter).ok()?;
    if rewriter.had_room() { Some(()) } else { None }
}

fn prepared(alloc: Global, ctx: &mut Context, asked: &str) -> Option<String> {
    let (place, text) = asked.split_once(' ')?;
    let root = read_operation::<RoutineKind>(alloc, text.as_bytes(), ctx).ok()??;
    let op = operation_at(ctx, root, place)?;
    prepare(alloc, ctx, op)?;
    if !root.is_live(ctx) {
        return None;
    }
    print_operation::<RoutineKind>(alloc, root, ctx).ok()
}

fn check_row(rt: &impl Abort, alloc: Global, row: &str) {
    let row = row_of(row).expect(rt, "a row");
    let left = prepared(alloc, &mut Context::new(alloc), row.asked).expect(rt, "the whole");
    assert_eq!(rt; left.as_str(), row.want, "{}", row.name);
}

#[test]
fn calls_are_prepared(rt: HostRuntime) {
    for row in ROWS.lines() {
        check_row(&rt, rt.alloc(), row);
    }
}
