//! Functions, and whether they may take the place of a call.
use crate::building::function;
use pliron_core::Context;
use pliron_dialect::ByRoles;
use pliron_dialect_calls_tests::routine_kind::RoutineKind;
use pliron_opt_inline::may_be_inlined;
use pliron_test_cases::cases::{number, row_of};
use std::alloc::Global;
use std::process::Abort;

type Routines = ByRoles<RoutineKind>;

// A line has a name; the operands and the results of the call, the head of the function and its blocks; and the answer.
static ROWS: &str = "\
the plain case -- 1 1 func@f 1: pack 1 0 0; ret 0 1 => yes
two returns -- 1 1 func@f 1: jmp 0 0 > 1 | 1: ret 0 1 | 0: ret 0 0 => yes
a callee that never returns -- 1 1 func@f 1: jmp 0 0 > 0 => yes
no results -- 0 0 func@f 0: print 0; ret 0 => yes
a call in the callee -- 1 1 func@f 1: call@g 1 0; ret 0 1 => yes
a function of no name -- 1 1 func 1: ret 0 0 => no
one that takes fewer values -- 2 1 func@f 1: ret 0 0 => no
one that takes more values -- 0 1 func@f 1: ret 0 0 => no
one that returns fewer values -- 1 1 func@f 1: ret 0 => no
one that returns more values -- 1 1 func@f 1: ret 0 0 0 => no
one of two returns doesn't fit -- 1 1 func@f 1: jmp 0 0 > 1 | 1: ret 0 1 | 0: ret 0 => no
a return with a result -- 1 1 func@f 1: ret 1 0 => no
a return in the middle -- 1 1 func@f 1: ret 0 0; ret 0 0 => no
a block that falls off its end -- 1 1 func@f 1: pack 1 0 => no
an empty block -- 1 1 func@f 1: ret 0 0 | 0: => no
a region inside -- 1 1 func@f 1: func@g 0; ret 0 0 => no
";

fn answered(alloc: Global, ctx: &mut Context, asked: &str) -> Option<bool> {
    let (operands, rest) = asked.split_once(' ')?;
    let (results, rest) = rest.split_once(' ')?;
    let (word, written) = rest.split_once(' ')?;
    let callee = function(alloc, ctx, word, written)?;
    if !callee.is_live(ctx) {
        return None;
    }
    Some(may_be_inlined::<Routines>(callee, number(operands)?, number(results)?, ctx))
}

fn check_row(rt: &impl Abort, alloc: Global, row: &str) {
    let row = row_of(row).expect(rt, "a row");
    let may = answered(alloc, &mut Context::new(alloc), row.asked).expect(rt, "the whole");
    assert_eq!(rt; may, row.want == "yes", "{}", row.name);
}

#[test]
fn callees_are_tested(rt: HostRuntime) {
    for row in ROWS.lines() {
        check_row(&rt, rt.alloc(), row);
    }
}
