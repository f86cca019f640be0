//! Modules whose calls are inlined.
use crate::building::module;
use crate::policy::{Routines, RowPolicy};
use pliron_core::{AttrObj, Context, Operation, Ptr};
use pliron_dialect_calls_tests::routine_kind::RoutineKind;
use pliron_opt_inline::{
    InlinedCall, InlinedCalls, InliningOptions, InliningReason, MadeValue, inline_calls,
};
use pliron_test_cases::cases::{number, operation_at, row_of};
use pliron_test_cases::listener::CountingListener;
use pliron_text::print_operation;
use std::alloc::Global;
use std::process::Abort;

// A line has a name; a word for the policy, the three numbers of the options and the functions of a module; and the calls that are
// inlined, each the names of the caller and the callee and the reason, and what is left of the first function.
static ROWS: &str = "\
the plain case -- - 7 0 100 func@m 1: call@f 1 0; ret 0 1 / func@f 1: pack 1 0 0; ret 0 1 \
    => m<f small: func { b0(v0): jmp b2(v0); b1(v1): ret v1; b2(v2): v3 = pack v2 v2; jmp b1(v3) }
a chain of three -- - 10 0 100 func@m 1: call@f 1 0; ret 0 1 / func@f 1: call@g 1 0; ret 0 1 / func@g 1: pack 1 0; ret 0 1 \
    => f<g small, m<f small: func { b0(v0): jmp b2(v0); b1(v1): ret v1; b2(v2): jmp b4(v2); b3(v3): jmp b1(v3); \
    b4(v4): v5 = pack v4; jmp b3(v5) }
the callee has grown -- - 9 0 100 func@m 1: call@f 1 0; ret 0 1 / func@f 1: call@g 1 0; ret 0 1 / func@g 1: pack 1 0; ret 0 1 \
    => f<g small: func { b0(v0): v1 = call v0; ret v1 }
a call of itself -- a 99 0 100 func@m 1: call@m 1 0; ret 0 1 => none: func { b0(v0): v1 = call v0; ret v1 }
two that call each other -- a 99 0 100 func@m 1: call@f 1 0; ret 0 1 / func@f 1: call@m 1 0; ret 0 1 \
    => none: func { b0(v0): v1 = call v0; ret v1 }
a callee of two blocks -- - 7 0 100 func@m 1: call@f 1 0; ret 0 1 / func@f 1: jmp 0 0 > 1 | 1: ret 0 1 \
    => m<f small: func { b0(v0): jmp b2(v0); b1(v1): ret v1; b2(v2): jmp b3(v2); b3(v3): jmp b1(v3) }
a call in the second block -- - 7 0 100 func@m 1: jmp 0 0 > 1 | 1: call@f 1 1; ret 0 2 / func@f 1: pack 1 0 0; ret 0 1 \
    => m<f small: func { b0(v0): jmp b1(v0); b1(v1): jmp b3(v1); b2(v2): ret v2; b3(v3): v4 = pack v3 v3; jmp b2(v4) }
the last call comes first -- - 7 0 100 func@m 1: call@f 1 0; call@f 1 1; ret 0 2 / func@f 1: ret 0 0 \
    => m<f small, m<f small: func { b0(v0): jmp b4(v0); b1(v1): ret v1; b2(v2): jmp b1(v2); b3(v3): jmp b2(v3); \
    b4(v4): jmp b3(v4) }
unused results -- - 7 0 100 func@m 1: call@f 1 0; ret 0 0 / func@f 1: pack 1 0; ret 0 1 \
    => m<f small: func { b0(v0): jmp b2(v0); b1(v1): ret v0; b2(v2): v3 = pack v2; jmp b1(v3) }
above the threshold -- - 6 0 100 func@m 1: call@f 1 0; ret 0 1 / func@f 1: pack 1 0 0; ret 0 1 \
    => none: func { b0(v0): v1 = call v0; ret v1 }
at the limit -- - 7 0 5 func@m 1: call@f 1 0; ret 0 1 / func@f 1: ret 0 0 \
    => m<f small: func { b0(v0): jmp b2(v0); b1(v1): ret v1; b2(v2): jmp b1(v2) }
above the limit -- - 7 0 4 func@m 1: call@f 1 0; ret 0 1 / func@f 1: ret 0 0 => none: func { b0(v0): v1 = call v0; ret v1 }
the policy admits none -- n 7 0 100 func@m 1: call@f 1 0; ret 0 1 / func@f 1: ret 0 0 \
    => none: func { b0(v0): v1 = call v0; ret v1 }
what may not be copied -- c 99 0 100 func@m 1: call@f 1 0; ret 0 1 / func@f 1: print 0 0; ret 0 0 \
    => none: func { b0(v0): v1 = call v0; ret v1 }
the policy asks for it -- a 0 0 100 func@m 1: call@f 1 0; ret 0 1 / func@f 1: ret 0 0 \
    => m<f asked for: func { b0(v0): jmp b2(v0); b1(v1): ret v1; b2(v2): jmp b1(v2) }
the only call of a private function -- p 0 2 100 func@m 1: call@f 1 0; ret 0 1 / func@f 1: ret 0 0 \
    => m<f only call: func { b0(v0): jmp b2(v0); b1(v1): ret v1; b2(v2): jmp b1(v2) }
a private function above its own bound -- p 0 1 100 func@m 1: call@f 1 0; ret 0 1 / func@f 1: ret 0 0 \
    => none: func { b0(v0): v1 = call v0; ret v1 }
a private function with two calls -- p 0 2 100 func@m 1: call@f 1 0; call@f 1 1; ret 0 2 / func@f 1: ret 0 0 \
    => none: func { b0(v0): v1 = call v0; v2 = call v1; ret v2 }
two functions of one name -- - 7 0 100 func@m 1: call@f 1 0; ret 0 1 / func@f 1: ret 0 0 / func@f 1: ret 0 0 \
    => none: func { b0(v0): v1 = call v0; ret v1 }
a callee that is not fit to run -- - 99 0 100 func@m 1: call@f 1 0; ret 0 1 / func@f 1: pack 1 2; pack 1 0; ret 0 1 \
    => none: func { b0(v0): v1 = call v0; ret v1 }
more operands than the callee takes -- - 7 0 100 func@m 1: call@f 1 0 0; ret 0 1 / func@f 1: ret 0 0 \
    => none: func { b0(v0): v1 = call v0 v0; ret v1 }
a call of no function here -- - 7 0 100 func@m 1: call@k 1 0; ret 0 1 / func@f 1: ret 0 0 \
    => none: func { b0(v0): v1 = call v0; ret v1 }
a call that ends its block -- - 7 0 100 func@m 1: call@f 1 0 / func@f 1: ret 0 0 => none: func { b0(v0): v1 = call v0 }
";

// A line has a name; the same of a module; and each value that was made, before the one that it stands for, by the numbers of
// their handles, which are given out in the order of the text.
static VALUES: &str = "\
a callee with a block argument -- - 7 0 100 func@m 1: call@f 0 0; ret 0 0 / func@f 1: jmp 0 0 > 1 | 1: ret 0 => 3:1 4:2
a call with a result -- - 7 0 100 func@m 1: call@f 1 0; ret 0 1 / func@f 1: pack 1 0 0; ret 0 1 => 4:1 5:2 6:3
nothing inlined -- - 0 0 100 func@m 1: call@f 1 0; ret 0 1 / func@f 1: ret 0 0 => none
";

fn reason_word(reason: InliningReason) -> &'static str {
    match reason {
        InliningReason::AskedFor => "asked for",
        InliningReason::Small => "small",
        InliningReason::OnlyCall => "only call",
    }
}

// Adds the name of the function.
fn push_name(ctx: &Context, function: Ptr<Operation>, text: &mut String) -> Option<()> {
    if !function.is_live(ctx) || function.head(ctx).attrs.is_empty() {
        return None;
    }
    match function.head(ctx).attrs.get(0) {
        AttrObj::Text(name) => text.push_str(name.as_str()).ok(),
        AttrObj::Int(_) => None,
    }
}

fn push_call(ctx: &Context, call: &InlinedCall, text: &mut String) -> Option<()> {
    push_name(ctx, call.caller, text)?;
    text.push_str("<").ok()?;
    push_name(ctx, call.callee, text)?;
    write!(text, " {}", reason_word(call.reason)).ok()
}

// The calls, as rows have them.
fn calls_written(alloc: Global, ctx: &Context, calls: &[InlinedCall]) -> Option<String> {
    let mut text = String::new(alloc);
    for (i, call) in calls.iter().enumerate() {
        if i > 0 {
            text.push_str(", ").ok()?;
        }
        push_call(ctx, call, &mut text)?;
    }
    if calls.is_empty() {
        text.push_str("none").ok()?;
    }
    Some(text)
}

// The values, as rows have them.
fn values_written(alloc: Global, values: &[MadeValue]) -> Option<String> {
    let mut text = String::new(alloc);
    for (i, made) in values.iter().enumerate() {
        if i > 0 {
            text.push_str(" ").ok()?;
        }
        write!(text, "{}:{}", made.value.key(), made.original.key()).ok()?;
    }
    if values.is_empty() {
        text.push_str("none").ok()?;
    }
    Some(text)
}

// The number before the next blank, and what is behind that.
fn next_number(text: &str) -> Option<(u64, &str)> {
    let (word, rest) = text.split_once(' ')?;
    Some((u64::try_from(number(word)?).ok()?, rest))
}

// The three numbers, and what is behind them.
fn options_of(text: &str) -> Option<(InliningOptions, &str)> {
    let (threshold, rest) = next_number(text)?;
    let (only_call, rest) = next_number(rest)?;
    let (limit, rest) = next_number(rest)?;
    let options = InliningOptions {
        threshold,
        only_call,
        limit,
    };
    Some((options, rest))
}

// The calls of the functions are inlined by this policy and with these numbers.
fn inlined(
    alloc: Global,
    ctx: &mut Context,
    holder: Ptr<Operation>,
    policy: &str,
    options: InliningOptions,
) -> Option<InlinedCalls> {
    if !holder.is_live(ctx) {
        return None;
    }
    let mut rewriter = CountingListener::new();
    let done = inline_calls::<Routines, RowPolicy, CountingListener>(
        alloc,
        holder,
        &options,
        &RowPolicy::of(policy),
        ctx,
        &mut rewriter,
    );
    if rewriter.had_room() { done.ok() } else { None }
}

// The module of a row whose calls are inlined, and what was.
fn module_inlined(
    alloc: Global,
    ctx: &mut Context,
    asked: &str,
) -> Option<(Ptr<Operation>, InlinedCalls)> {
    let (policy, rest) = asked.split_once(' ')?;
    let (options, functions) = options_of(rest)?;
    let holder = module(alloc, ctx, functions)?;
    let done = inlined(alloc, ctx, holder, policy, options)?;
    Some((holder, done))
}

// The first function of the module.
fn first_function(alloc: Global, ctx: &Context, holder: Ptr<Operation>) -> Option<String> {
    let first = operation_at(ctx, holder, "0")?;
    if !first.is_live(ctx) {
        return None;
    }
    print_operation::<RoutineKind>(alloc, first, ctx).ok()
}

fn answered(alloc: Global, ctx: &mut Context, asked: &str) -> Option<String> {
    let (holder, done) = module_inlined(alloc, ctx, asked)?;
    let calls = calls_written(alloc, ctx, &done.calls)?;
    let first = first_function(alloc, ctx, holder)?;
    format!(in alloc; "{calls}: {first}").ok()
}

fn values_made(alloc: Global, ctx: &mut Context, asked: &str) -> Option<String> {
    let (_, done) = module_inlined(alloc, ctx, asked)?;
    values_written(alloc, &done.values)
}

fn check_row(rt: &impl Abort, alloc: Global, row: &str) {
    let row = row_of(row).expect(rt, "a row");
    let answer = answered(alloc, &mut Context::new(alloc), row.asked).expect(rt, "the whole");
    assert_eq!(rt; answer.as_str(), row.want, "{}", row.name);
}

fn check_values(rt: &impl Abort, alloc: Global, row: &str) {
    let row = row_of(row).expect(rt, "a row");
    let values = values_made(alloc, &mut Context::new(alloc), row.asked).expect(rt, "the whole");
    assert_eq!(rt; values.as_str(), row.want, "{}", row.name);
}

#[test]
fn calls_are_inlined(rt: HostRuntime) {
    for row in ROWS.lines() {
        check_row(&rt, rt.alloc(), row);
    }
}

#[test]
fn values_are_told(rt: HostRuntime) {
    for row in VALUES.lines() {
        check_values(&rt, rt.alloc(), row);
    }
}
