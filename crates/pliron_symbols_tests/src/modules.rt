//! Modules whose functions go that nothing names.
use crate::building::module;
use crate::policy::{Routines, RowSymbols};
use pliron_core::{AttrObj, Children, Context, Operation, Ptr};
use pliron_opt_symbols::symbol_dce;
use pliron_test_cases::cases::row_of;
use pliron_test_cases::listener::CountingListener;
use std::alloc::Global;
use std::process::Abort;

// A line has a name; a module; and the names of what is directly in it afterwards.
static ROWS: &str = "\
a private function that nothing calls -- M / f => M
a public function -- F => F
one that a public one calls -- M f / f => M f
over another one -- M f / f g / g => M f g
two that call each other alone -- M / f g / g f => M
two that call each other, one of them called -- M f / f g / g f => M f g
one that calls itself -- M / f f => M
one called from one that goes -- M / f g / g => M
one called from one that goes and from one that stays -- M g / f g / g => M g
main has a copy of k, which dead calls -- M / k / dead k => M
one called beside the functions -- M / f / !f => M f call
one called in an operation inside -- M (f / f => M f
one called in an operation inside one that goes -- M / g (f / f => M
a call of no function -- M x / f => M
no function -- !x => call
what may call any function, in one that stays -- M * / f => M f
what may call any function, in one that goes -- M / f * / g => M f g
two of one name -- M / f / f => M f f
the order stays -- a / B b / b / c / D => B b D
";

// Adds the name of the operation, or that it is a call.
fn push_name(ctx: &Context, op: Ptr<Operation>, text: &mut String) -> Option<()> {
    if !text.is_empty() {
        text.push_str(" ").ok()?;
    }
    if !op.is_live(ctx) || op.head(ctx).attrs.is_empty() {
        return None;
    }
    if op.head(ctx).kind == 1 {
        return text.push_str("call").ok();
    }
    match op.head(ctx).attrs.get(0) {
        AttrObj::Text(name) => text.push_str(name.as_str()).ok(),
        AttrObj::Int(_) => None,
    }
}

// The names of what is directly in the module.
fn names_in(alloc: Global, ctx: &Context, holder: Ptr<Operation>) -> Option<String> {
    if !holder.is_live(ctx) {
        return None;
    }
    let mut text = String::new(alloc);
    for op in Children::new(holder, ctx) {
        push_name(ctx, op, &mut text)?;
    }
    Some(text)
}

// The functions that nothing names go; how many.
fn erased(alloc: Global, ctx: &mut Context, holder: Ptr<Operation>) -> Option<usize> {
    if !holder.is_live(ctx) {
        return None;
    }
    let mut rewriter = CountingListener::new();
    let gone = symbol_dce::<Routines, RowSymbols, CountingListener>(
        alloc,
        holder,
        &RowSymbols {},
        ctx,
        &mut rewriter,
    );
    if rewriter.had_room() {
        Some(gone.ok()?.len())
    } else {
        None
    }
}

fn answered(alloc: Global, ctx: &mut Context, asked: &str) -> Option<String> {
    let holder = module(alloc, ctx, asked)?;
    let before = names_in(alloc, ctx, holder)?.split(' ').count();
    let gone = erased(alloc, ctx, holder)?;
    let left = names_in(alloc, ctx, holder)?;
    if left.split(' ').count().saturating_add(gone) == before {
        Some(left)
    } else {
        None
    }
}

fn check_row(rt: &impl Abort, alloc: Global, row: &str) {
    let row = row_of(row).expect(rt, "a row");
    let answer = answered(alloc, &mut Context::new(alloc), row.asked).expect(rt, "the whole");
    assert_eq!(rt; answer.as_str(), row.want, "{}", row.name);
}

#[test]
fn what_nothing_names_goes(rt: HostRuntime) {
    for row in ROWS.lines() {
        check_row(&rt, rt.alloc(), row);
    }
}
