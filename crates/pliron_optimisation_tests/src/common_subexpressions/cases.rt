//! Texts, and what is left of them. `C` is before one that changes, `U` before one that does not, and before that a
//! name. They were worked out by hand.

pub static ROWS: &str = "\
behind its leader -- C func { b0(x, y): a = add x y; b = add x y; c = add a b; ret c } => func { b0(v0, v1): v2 \
    = add v0 v1; v3 = add v2 v2; ret v3 }
a chain in one run -- C func { b0(a, b, c): x = add a b; y = add a b; z = add x c; w = add y c; ret z w } => \
    func { b0(v0, v1, v2): v3 = add v0 v1; v4 = add v3 v2; ret v4 v4 }
operands in another order -- U func { b0(x, y): a = add x y; b = add y x; ret a b } => func { b0(v0, v1): v2 = \
    add v0 v1; v3 = add v1 v0; ret v2 v3 }
side effects -- U func { b0(x, y): a = div x y; b = div x y; r = read; s = read; ret a b r s } => func { b0(v0, \
    v1): v2 = div v0 v1; v3 = div v0 v1; v4 = read; v5 = read; ret v2 v3 v4 v5 }
in two branches -- U func { b0(x): cbr x b1() b2(); b1(): a = add x x; br b3(a); b2(): b = add x x; br b3(b); \
    b3(p): ret p } => func { b0(v0): cbr v0 b1() b2(); b1(): v1 = add v0 v0; br b3(v1); b2(): v2 = add v0 v0; br \
    b3(v2); b3(v3): ret v3 }
passed on one way only -- U func { b0(x): cbr x b1() b2(); b1(): a = add x x; print a; br b2(); b2(): b = add x \
    x; ret b } => func { b0(v0): cbr v0 b1() b2(); b1(): v1 = add v0 v0; print v1; br b2(); b2(): v2 = add v0 \
    v0; ret v2 }
dominating both branches and what is behind -- C func { b0(x): a = add x x; cbr x b1() b2(); b1(): b = add x x; \
    br b3(b); b2(): c = add x x; d = mul c c; br b3(d); b3(p): e = mul a a; ret p e } => func { b0(v0): v1 = add \
    v0 v0; cbr v0 b1() b2(); b1(): br b3(v1); b2(): v2 = mul v1 v1; br b3(v2); b3(v3): v4 = mul v1 v1; ret v3 v4 \
    }
a loop with the operand as argument -- C func { b0(z): br b1(z); b1(i): a = add i i; print a; b = add i i; r = \
    read; cbr r b1(b) b2(); b2(): c = add i i; ret c } => func { b0(v0): br b1(v0); b1(v1): v2 = add v1 v1; \
    print v2; v3 = read; cbr v3 b1(v2) b2(); b2(): ret v2 }
an argument that changes -- U func { b0(z): a = add z z; br b1(z, a); b1(i, s): b = add i i; r = read; cbr r \
    b1(s, b) b2(); b2(): ret s } => func { b0(v0): v1 = add v0 v0; br b1(v0, v1); b1(v2, v3): v4 = add v2 v2; v5 \
    = read; cbr v5 b1(v3, v4) b2(); b2(): ret v3 }
a loop round a scope that jumps to its entry -- C func { b0(x): br b1(x); b1(i): a = mul i i; scope i a { b0(p, \
    q): b = mul i i; c = mul p p; d = add b q; e = mul p p; print d; print c; print e; r = read; cbr r b0(b, c) \
    b1(); b1(): f = mul i i; print f; ret }; s = read; cbr s b1(a) b2(); b2(): ret } => func { b0(v0): br \
    b1(v0); b1(v1): v2 = mul v1 v1; scope v1 v2 { b0(v3, v4): v5 = mul v3 v3; v6 = add v2 v4; print v6; print \
    v5; print v5; v7 = read; cbr v7 b0(v2, v5) b1(); b1(): print v2; ret }; v8 = read; cbr v8 b1(v2) b2(); b2(): \
    ret }
beside and behind a region -- U func { b0(x): scope { b0(): a = mul x x; print a; ret }; scope { b0(): b = mul x \
    x; print b; ret }; c = mul x x; ret c } => func { b0(v0): scope { b0(): v1 = mul v0 v0; print v1; ret }; \
    scope { b0(): v2 = mul v0 v0; print v2; ret }; v3 = mul v0 v0; ret v3 }
without operands in one region only -- C func { b0(): a = const 5; b = const 5; c = const 6; scope { b0(): d = \
    const 5; e = const 5; f = add a a; print d; print e; print f; ret }; g = add b a; ret g c } => func { b0(): \
    v0 = const 5; v1 = const 6; scope { b0(): v2 = const 5; v3 = add v0 v0; print v2; print v2; print v3; ret }; \
    v4 = add v0 v0; ret v4 v1 }
two results, then what uses them -- C func { b0(): l, r = pair; s, t = pair; u = add l t; v = add s r; sink u; \
    sink v; ret u v } => func { b0(): v0, v1 = pair; v2 = add v0 v1; sink v2; ret v2 v2 }
boxes -- U func { b0(): box { b0(): k = const 4 }; box { b0(): l = const 4 }; ret } => func { b0(): box { b0(): \
    v0 = const 4 }; box { b0(): v1 = const 4 }; ret }
not reached -- U func { b0(): ret; b1(): a = const 1; b = const 1; ret a b } => func { b0(): ret; b1(): v0 = \
    const 1; v1 = const 1; ret v0 v1 }
a module without dominance -- C mod { b0(): func { b0(x): a = add x x; b = add x x; ret a b }; func { b0(): a = \
    const 1; b = const 1; ret a b } } => mod { b0(): func { b0(v0): v1 = add v0 v0; ret v1 v1 }; func { b0(): v0 \
    = const 1; ret v0 v0 } }
two deep -- C func { b0(x): scope { b0(): a = add x x; scope { b0(): b = add x x; c = mul b x; print c; ret }; d \
    = mul a x; e = add x x; print d; print e; ret }; ret } => func { b0(v0): scope { b0(): v1 = add v0 v0; scope \
    { b0(): v2 = mul v1 v0; print v2; ret }; v3 = mul v1 v0; print v3; print v1; ret }; ret }";

/// Uses are before definitions here, so a second call finds more.
pub static BACKWARDS: &str = "\
uses before definitions -- C func { b0(): c = add b b; d = add a a; a = const 1; b = const 1; ret c d } => func \
    { b0(): v0 = add v2 v2; v1 = add v2 v2; v2 = const 1; ret v0 v1 }";
