//! Functions before and after one of their operations was folded in place, worked by hand.
ghost use Rattle.pliron_core.specs.Tree.{IsLive};

use super::texts::read;
use crate::expect::expect_text;
use pliron_core::{AttrObj, Context, IRRewriter, Operation, Ptr, Rewriter};
use pliron_dialect_arithmetic::{Arithmetic, ArithmeticKind};
use pliron_laws::reads::all_operations;
use pliron_laws::{BranchOpFoldInterface, ConstFoldInterface, is_well_linked};
use pliron_test_cases::cases::{CaseRow, all_known, number, row_of};
use pliron_text::print_operation;
use std::alloc::Global;
use std::process::Abort;

// A name, the number of an operation of the first block, what is known of its operands, the function, what it becomes.
static CASES: &str = "\
a number -- 0 | | function { b0(): a = lit 6; return a } => function { b0(): v0 = lit 6; return v0 }
a product -- 2 | 6 7 | function { b0(): a = lit 6; b = lit 7; p = mul a b; return p } => function { b0(): v0 = lit \
    6; v1 = lit 7; v2 = lit 42; v3 = mul v0 v1; return v2 }
a product with one unknown -- 2 | 6 ? | function { b0(): a = lit 6; b = lit 7; p = mul a b; return p } => function \
    { b0(): v0 = lit 6; v1 = lit 7; v2 = mul v0 v1; return v2 }
a negative -- 1 | 5 | function { b0(): a = lit 5; n = neg a; return n } => function { b0(): v0 = lit 5; v1 = lit \
    -5; v2 = neg v0; return v1 }
less, of a smaller one -- 2 | 3 4 | function { b0(): a = lit 3; b = lit 4; l = less a b; return l } => function { \
    b0(): v0 = lit 3; v1 = lit 4; v2 = lit 1; v3 = less v0 v1; return v2 }
less, of a greater one -- 2 | 4 3 | function { b0(): a = lit 4; b = lit 3; l = less a b; return l } => function { \
    b0(): v0 = lit 4; v1 = lit 3; v2 = lit 0; v3 = less v0 v1; return v2 }
a sum past the greatest -- 0 | 9223372036854775807 1 | function { b0(x, y): s = add x y; return s } => function { \
    b0(v0, v1): v2 = lit -9223372036854775808; v3 = add v0 v1; return v2 }
a branch on 0 -- 0 | 0 ? ? | function { b0(c, x, y): branch c t(x) f(y); t(p): return p; f(q): return q } => \
    function { b0(v0, v1, v2): jump b2(v2); b1(v3): return v3; b2(v4): return v4 }
a branch on a number but 0 -- 0 | 5 ? ? | function { b0(c, x, y): branch c t(x) f(y); t(p): return p; f(q): return \
    q } => function { b0(v0, v1, v2): jump b1(v1); b1(v3): return v3; b2(v4): return v4 }
a branch on an unknown one -- 0 | ? ? ? | function { b0(c, x, y): branch c t(x) f(y); t(p): return p; f(q): return \
    q } => function { b0(v0, v1, v2): branch v0 b1(v1) b2(v2); b1(v3): return v3; b2(v4): return v4 }";

fn operation_at(
    rt: &impl Abort,
    alloc: Global,
    ctx: &Context,
    root: Ptr<Operation>,
    index: usize,
) -> Ptr<Operation> {
    assert!(rt; root.is_live(ctx));
    assert!(rt; root.num_region(ctx) == 1);
    let Some(block) = root.get_region(ctx, 0).get_head(ctx) else {
        panic!(rt; "no block");
    };
    assert!(rt; block.is_live(ctx));
    let operations = all_operations(alloc, block, ctx).expect(rt, "memory");
    assert!(rt; index < operations.len());
    operations[index]
}

fn fold(
    rt: &impl Abort,
    alloc: Global,
    ctx: &mut Context,
    op: Ptr<Operation>,
    attrs: &[Option<AttrObj>],
) {
    assert!(rt; op.is_live(ctx));
    assert!(rt; op.get_parent_block(ctx).is_some());
    assert!(rt; op.num_operand(ctx) == attrs.len());
    let mut rewriter = IRRewriter::new();
    rewriter.set_insertion_point_before_operation(op);
    if Arithmetic::folds(op, ctx) {
        let folded = <Arithmetic as ConstFoldInterface>::fold_in_place(
            alloc,
            op,
            ctx,
            attrs,
            &mut rewriter,
        );
        let _ = folded.expect(rt, "memory");
    } else if Arithmetic::folds_branch(op, ctx) {
        let folded = <Arithmetic as BranchOpFoldInterface>::fold_in_place(
            alloc,
            op,
            ctx,
            attrs,
            &mut rewriter,
        );
        let _ = folded.expect(rt, "memory");
    }
}

fn folded_in(rt: &impl Abort, alloc: Global, ctx: &mut Context, case: &str) -> String {
    let (index, rest) = case.split_once(" | ").expect(rt, "a number");
    let (words, text) = rest.split_once("| ").expect(rt, "operands");
    let index = number(index).expect(rt, "a number");
    let root = read(rt, alloc, ctx, text);
    assert!(rt; root.is_live(ctx));
    assert!(rt; is_well_linked::<Arithmetic>(root, ctx));
    let op = operation_at(rt, alloc, ctx, root, index);
    let attrs = all_known(alloc, words).expect(rt, "memory");
    fold(rt, alloc, ctx, op, &attrs);
    assert!(rt; root.is_live(ctx));
    assert!(rt; is_well_linked::<Arithmetic>(root, ctx));
    print_operation::<ArithmeticKind>(alloc, root, ctx).expect(rt, "memory")
}

fn check(rt: &impl Abort, alloc: Global, line: &str) {
    let CaseRow { name, asked, want } = row_of(line).expect(rt, "a case");
    let mut ctx = Context::new(alloc);
    let text = folded_in(rt, alloc, &mut ctx, asked);
    expect_text(rt, text.as_str(), want, name);
}

#[test]
fn texts(rt: HostRuntime) {
    for line in CASES.lines() {
        check(&rt, rt.alloc(), line);
    }
}
