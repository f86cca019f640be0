//! Rows of the program, each with a name, worked by hand.
use crate::texts::expect_lists;

/// Names, lists of passes, texts, and what is written of them, with ends of lines as `|`.
static NAMED: &str = "\
two constant arguments of one block -- sccp :: func { b0(): a = const 1; b = const 2; br b1(a, b); b1(p, q): ret p \
    q } => func { b0(): v0 = const 1; v1 = const 2; br b1(v0, v1); b1(v2, v3): v4 = const 2; v5 = const 1; ret v5 \
    v4 }|changed|
one constant argument of two -- sccp :: func { b0(x): a = const 1; br b1(a, x); b1(p, q): ret p q } => func { \
    b0(v0): v1 = const 1; br b1(v1, v0); b1(v2, v3): v4 = const 1; ret v4 v3 }|changed|
a change that a later pass undoes -- sccp,dce :: func { b0(): a = const 2; scope a { b0(p): ret }; ret a } => func \
    { b0(): v0 = const 2; scope v0 { b0(v1): ret }; ret v0 }|changed|
a fork hands its block no constant -- sccp :: func { b0(x): c = const 3; cbr x b1(c) b2(); b1(p): ret p; b2(): \
    fork x b1 b1 } => func { b0(v0): v1 = const 3; cbr v0 b1(v1) b2(); b1(v2): ret v2; b2(): fork v0 b1 b1 \
    }|unchanged|
the smallest number divided by minus one traps -- sccp :: func { b0(): a = const -9223372036854775808; b = const \
    -1; d = div a b; ret d } => func { b0(): v0 = const -9223372036854775808; v1 = const -1; v2 = div v0 v1; ret \
    v2 }|unchanged|
both edges of a branch to one block -- sccp :: func { b0(): c = const 1; d = const 2; cbr c b1(c) b1(d); b1(p): \
    ret p } => func { b0(): v0 = const 1; v1 = const 2; cbr v0 b1(v0) b1(v1); b1(v2): ret v2 }|unchanged|
a known condition, and an unreached block that forwards -- sccp :: func { b0(): c = const 1; x = const 5; y = \
    const 6; cbr c b1(x) b2(y); b1(p): br b2(p); b2(q): ret q; b3(): br b2(y) } => func { b0(): v0 = const 1; v1 = \
    const 5; v2 = const 6; cbr v0 b1(v1) b2(v2); b1(v3): v4 = const 5; br b2(v4); b2(v5): v6 = const 5; ret v6; \
    b3(): br b2(v2) }|changed|
a use before its definition -- sccp :: func { b0(): c = add a b; a = const 1; b = const 2; ret c } => func { b0(): \
    v0 = const 3; v1 = add v2 v3; v2 = const 1; v3 = const 2; ret v0 }|changed|
an argument to which nothing is forwarded, used -- sccp :: func { b0(): br b1(); b1(p): ret p } => func { b0(): br \
    b1(); b1(v0): ret v0 }|unchanged|
an argument to which nothing is forwarded, unused -- dce :: func { b0(): br b1(); b1(p): ret } => func { b0(): br \
    b1(); b1(): ret }|changed|
an operation of itself -- dce :: func { b0(): a = add a a; ret } => func { b0(): v0 = add v0 v0; ret }|unchanged|
one value forwarded twice -- dce :: func { b0(): x = const 1; br b1(x, x); b1(a, b): sink a a b; ret } => func { \
    b0(): br b1(); b1(): ret }|changed|
a condition that is no constant -- simplify-cfg :: func { b0(): z = const 0; c = add z z; box { }; cbr c b1() \
    b2(); b1(): ret; b2(): ret } => func { b0(): v0 = const 0; v1 = add v0 v0; box { }; cbr v1 b1() b2(); b1(): \
    ret; b2(): ret }|unchanged|
a ring of unreachable blocks -- simplify-cfg :: func { b0(): ret; b1(): a = const 1; br b2(); b2(): print a; br \
    b1() } => func { b0(): ret }|changed|
an inner value used outside -- dce :: func { b0(): box { b0(): k = const 4 }; print k; ret } => func { b0(): box { \
    b0(): v0 = const 4 }; print v0; ret }|unchanged|
a region that names a constant -- sccp :: func { b0(): a = const 2; scope a { b0(p): print p; ret }; ret a } => \
    func { b0(): v0 = const 2; scope v0 { b0(v1): v2 = const 2; print v2; ret }; ret v0 }|changed|
a region that names fewer operands than it takes -- sccp :: func { b0(): a = const 2; scope a { b0(p, q): print q; \
    ret p }; ret } => func { b0(): v0 = const 2; scope v0 { b0(v1, v2): v3 = const 2; print v2; ret v3 }; ret \
    }|changed|
a region that names an argument of a loop -- sccp :: func { b0(): z = const 0; br b1(z); b1(i): scope i { b0(p): \
    print p; ret }; o = const 1; n = add i o; r = read; cbr r b1(n) b2(); b2(): ret } => func { b0(): v0 = const \
    0; br b1(v0); b1(v1): scope v1 { b0(v2): print v2; ret }; v3 = const 1; v4 = add v1 v3; v5 = read; cbr v5 \
    b1(v4) b2(); b2(): ret }|unchanged|
a region whose entry is also a branch's target -- sccp :: func { b0(): a = const 2; scope a { b0(p): r = read; k = \
    const 3; cbr r b0(k) b1(); b1(): ret }; ret } => func { b0(): v0 = const 2; scope v0 { b0(v1): v2 = read; v3 = \
    const 3; cbr v2 b0(v3) b1(); b1(): ret }; ret }|unchanged|";

#[test]
fn named_rows(rt: HostRuntime) {
    expect_lists(&rt, rt.alloc(), NAMED)
}
