//! The first fault of a walk, by a dialect that finds faults of four interfaces.
use super::expect::expect_text;
use super::lines::read;
use super::strict::Strict;
use pliron_core::Context;
use pliron_pass::{OptError, verify_operation};
use pliron_test_cases::cases::{CaseRow, row_of};
use std::alloc::Global;
use std::process::Abort;

// A name and a text, and the code of its first fault.
static CASES: &str = "\
no fault -- func { b0(): a = const 1; ret a } => fit
a product, then a quotient and a print -- func { b0(): a = const 1; m = mul a a; d = div a a; print a; ret a } => \
    code 3
a quotient, then a product and a print -- func { b0(): a = const 1; d = div a a; m = mul a a; print a; ret a } => \
    code 2
a print, then a product and a quotient -- func { b0(): a = const 1; print a; m = mul a a; d = div a a; ret a } => \
    code 2
a product in a box before a print -- func { b0(): a = const 1; box { b0(): b = const 2; m = mul b b; ret }; print \
    a; d = div a a; ret a } => code 3
a box before a print -- func { b0(): a = const 1; box { b0(): b = const 2; ret }; print a; m = mul a a; ret a } => \
    code 2
a scope round a product -- func { b0(): a = const 1; scope { b0(): b = const 2; m = mul b b; ret }; ret a } => \
    code 2
a scope with one operand -- func { b0(): a = const 1; scope a { b0(p): ret p }; ret a } => fit
a scope with two operands -- func { b0(): a = const 1; scope a a { b0(p): m = mul p p; ret m }; ret a } => code 4
a scope with two operands in a scope -- func { b0(): a = const 1; scope a { b0(p): scope p a { b0(q, r): ret q }; \
    ret p }; print a; ret a } => code 4
edges that forward too few values -- func { b0(): a = const 1; cbr a b1() b1(); b1(p): m = mul p p; print m; ret m \
    } => code 1
a product in the second function -- mod { b0(): func { b0(): a = const 1; ret a }; func { b0(): m = mul c c; c = \
    const 1; print c; ret m } } => code 3";

fn check_in(rt: &impl Abort, alloc: Global, case: &str, ctx: &mut Context) {
    let CaseRow { name, asked, want } = row_of(case).expect(rt, "a case");
    let root = read(rt, alloc, ctx, asked);
    let said = match verify_operation::<Strict>(alloc, root, ctx) {
        Ok(()) => "fit",
        Err(OptError::Pass(1)) => "code 1",
        Err(OptError::Pass(2)) => "code 2",
        Err(OptError::Pass(3)) => "code 3",
        Err(OptError::Pass(4)) => "code 4",
        Err(_) => "another fault",
    };
    expect_text(rt, said, want, name);
}

fn check(rt: &impl Abort, alloc: Global, case: &str) {
    let mut ctx = Context::new(alloc);
    check_in(rt, alloc, case, &mut ctx);
}

#[test]
fn first_faults(rt: HostRuntime) {
    for case in CASES.lines() {
        check(&rt, rt.alloc(), case);
    }
}
