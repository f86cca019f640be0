//! What is asked of a tree after a call, without knowing what it left.
use crate::expect::expect_text;
use pliron_core::{Context, IRStatus, Operation, Ptr};
use pliron_dialect_bench::Bench;
use pliron_laws::{OptError, is_well_linked};
use pliron_test_cases::cases::{line, read};
use std::alloc::Global;
use std::process::Abort;

/// The line of the whole, which is well linked.
pub fn whole_line(rt: &impl Abort, alloc: Global, whole: Ptr<Operation>, ctx: &Context) -> String {
    assert!(rt; whole.is_live(ctx));
    assert!(rt; is_well_linked::<Bench>(whole, ctx));
    line(alloc, ctx, whole).expect(rt, "memory")
}

/// The answer; none where the call gave up since a value of an unreachable block is used.
pub fn answer_if_any(rt: &impl Abort, reported: Result<IRStatus, OptError>) -> Option<IRStatus> {
    match reported {
        Ok(status) => Some(status),
        Err(error) => {
            assert!(rt; error == OptError::LiveUse, "{error}");
            None
        }
    }
}

fn check_again(rt: &impl Abort, alloc: Global, ctx: &mut Context, text: &str) {
    let root = read(alloc, ctx, text).expect(rt, "a readable line");
    let printed = line(alloc, ctx, root).expect(rt, "memory");
    expect_text(rt, printed.as_str(), text, "the line again");
}

// The line is read again and printed the same.
fn check_readable(rt: &impl Abort, alloc: Global, text: &str) {
    let mut ctx = Context::new(alloc);
    check_again(rt, alloc, &mut ctx, text)
}

/// The whole is well linked, its line is read again and printed the same, and the answer reports accurately
/// whether it is another one than before.
pub fn check_left(
    rt: &impl Abort,
    alloc: Global,
    whole: Ptr<Operation>,
    ctx: &Context,
    before: &str,
    reported: Option<IRStatus>,
) {
    let after = whole_line(rt, alloc, whole, ctx);
    check_readable(rt, alloc, &after);
    if let Some(status) = reported {
        let has_changed = after.as_str() != before;
        assert!(rt; (status == IRStatus::Changed) == has_changed, "{before}");
    }
}
