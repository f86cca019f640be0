//! Reading and printing on allocation failure. Run it by hand with each request for memory refused in turn:
//! `rt try --test --fail-alloc N`.
use pliron_core::{Context, Operation, Ptr};
use pliron_test_cases::OptError;
use pliron_test_cases::bench::{print_text, read_text};
use std::alloc::Global;
use std::process::Abort;

/// A text of all that a reading makes, and its line.
static TEXT: &str =
    "func { e(x): c = const 3; l, r = pair; scope c { e(p): sink p l r; ret }; cbr x b(c) d(); b(q): ret q; d(): fork x b b }";

static LINE: &str =
    "func { b0(v0): v1 = const 3; v2, v3 = pair; scope v1 { b0(v4): sink v4 v2 v3; ret }; cbr v0 b1(v1) b2(); b1(v5): ret v5; b2(): fork v0 b1 b1 }";

// The line of the operation, asked for once more on allocation failure.
fn check_line(rt: &impl Abort, alloc: Global, ctx: &Context, root: Ptr<Operation>, want: &str) {
    assert!(rt; root.is_live(ctx));
    let line = match print_text(alloc, root, ctx) {
        Ok(line) => line,
        Err(error) => {
            assert!(rt; error == OptError::Memory);
            print_text(alloc, root, ctx).expect(rt, "memory")
        }
    };
    assert_eq!(rt; line.as_str(), want, "{want}");
}

// Reads a text beside an operation that is live, if there is one. On allocation failure that one stays as it is, and
// the text is read once more.
fn read_beside(
    rt: &impl Abort,
    alloc: Global,
    ctx: &mut Context,
    text: &str,
    first: Option<Ptr<Operation>>,
) -> Ptr<Operation> {
    let read = match read_text(alloc, text.as_bytes(), ctx) {
        Err(error) => {
            assert!(rt; error == OptError::Memory);
            if let Some(first) = first {
                check_line(rt, alloc, ctx, first, "mod { }");
            }
            read_text(alloc, text.as_bytes(), ctx).expect(rt, "memory")
        }
        Ok(read) => read,
    };
    read.expect(rt, "readable")
}

fn refused_in(rt: &impl Abort, alloc: Global, ctx: &mut Context) {
    let first = read_beside(rt, alloc, ctx, "mod { }", None);
    let second = read_beside(rt, alloc, ctx, TEXT, Some(first));
    check_line(rt, alloc, ctx, second, LINE);
    check_line(rt, alloc, ctx, first, "mod { }")
}

#[test]
fn refused_requests_for_memory(rt: HostRuntime) {
    let alloc = rt.alloc();
    let mut ctx = Context::new(alloc);
    refused_in(&rt, alloc, &mut ctx)
}
