//! What is answered of heads of the small dialect.
use crate::routine_kind::RoutineKind;
use pliron_core::{AttrObj, Attrs, Context, Head, Operation, Ptr, Text};
use pliron_dialect::{ByRoles, Roles};
use pliron_dialect_calls::InliningDialect;
use pliron_test_cases::cases::row_of;
use std::alloc::Global;
use std::process::Abort;

type Routines = ByRoles<RoutineKind>;

// A line has a name; the number of a kind, and texts that are its attributes; and what is answered.
static ROWS: &str = "\
a call -- 1 twice => calls twice, stays
a call of no name -- 1 => stays
a call with more attributes -- 1 twice fast => calls twice, stays
a function -- 0 main => is main
a function of no name -- 0 =>
a return -- 2 => returns, closes
a jump -- 3 => jumps, stays, closes
a constant -- 4 seven => stays
a kind of the interpretation -- 5 => stays
an effect that calls nothing -- 6 twice => stays
no kind -- 7 twice =>
";

fn head_of(alloc: Global, asked: &str) -> Option<Head> {
    let mut words = asked.split_ascii_whitespace();
    let kind = words.next()?.parse::<u32>().ok()?;
    let mut attrs = Vec::new(alloc);
    for word in words {
        let text = String::from_str(alloc, word).ok()?;
        attrs.push(AttrObj::Text(Text::new(text))).ok()?;
    }
    Some(Head {
        kind,
        ssa: true,
        attrs: Attrs::new(attrs),
    })
}

fn name_of(attr: Option<&AttrObj>) -> Option<&str> {
    match attr {
        Some(AttrObj::Text(text)) => Some(text.as_str()),
        _ => None,
    }
}

fn push(line: &mut String, word: &str, name: &str) -> Option<()> {
    if !line.is_empty() {
        line.push_str(", ").ok()?;
    }
    line.push_str(word).ok()?;
    line.push_str(name).ok()
}

fn names_of(op: Ptr<Operation>, ctx: &Context, line: &mut String) -> Option<()> {
    if !op.is_live(ctx) {
        return None;
    }
    if let Some(name) = name_of(Routines::callee_name(op, ctx)) {
        push(line, "calls ", name)?;
    }
    if let Some(name) = name_of(Routines::symbol_name(op, ctx)) {
        push(line, "is ", name)?;
    }
    Some(())
}

fn answers_of(op: Ptr<Operation>, ctx: &Context, line: &mut String) -> Option<()> {
    if !op.is_live(ctx) {
        return None;
    }
    if Routines::is_return(op, ctx) {
        push(line, "returns", "")?;
    }
    if Routines::is_jump(op, ctx) {
        push(line, "jumps", "")?;
    }
    if Routines::never_leaves(op, ctx) {
        push(line, "stays", "")?;
    }
    if Routines::never_gives(op, ctx) {
        push(line, "closes", "")?;
    }
    Some(())
}

fn answered(alloc: Global, ctx: &mut Context, asked: &str) -> Option<String> {
    let head = head_of(alloc, asked)?;
    let op = Operation::create(ctx, head, 0, 0).ok()?;
    let mut line = String::new(alloc);
    names_of(op, ctx, &mut line)?;
    answers_of(op, ctx, &mut line)?;
    Some(line)
}

fn check_row(rt: &impl Abort, alloc: Global, row: &str) {
    let row = row_of(row).expect(rt, "a row");
    let line = answered(alloc, &mut Context::new(alloc), row.asked).expect(rt, "the whole");
    assert_eq!(rt; line.as_str(), row.want, "{}", row.name);
}

#[test]
fn heads_are_read(rt: HostRuntime) {
    for row in ROWS.lines() {
        check_row(&rt, rt.alloc(), row);
    }
}

fn is_jump_of_kind(head: &Head) -> bool {
    head.kind == RoutineKind::Jmp.number() && head.ssa && head.attrs.is_empty()
}

#[test]
fn heads_of_jumps_are_made(rt: HostRuntime) {
    for operands in 0..3 {
        let head = Routines::jump_head(rt.alloc(), operands).expect(&rt, "memory");
        assert!(rt; is_jump_of_kind(&head));
    }
}
