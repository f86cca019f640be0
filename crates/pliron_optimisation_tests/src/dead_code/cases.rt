//! Texts, and what is left of them. `C` is before one that changes, `U` before one that does not, and before that a
//! name.
//!
//! `ROWS` were worked out by hand. The others are texts made at random, whose dead operations and
//! arguments `tools/expected` finds by a plain fixpoint: nothing is dead at first, and in each round what only dead
//! things use is, until a round finds nothing. The texts of `DEFINED` are well defined;
//! those in which uses may be anywhere are in `hostile`.

pub static ROWS: &str = "\
everything is used -- U func { b0(): a = const 1; b = const 2; c = add a b; ret c } => func { b0(): v0 = const 1; v1 = const 2; v2 = add v0 v1; ret v2 }
a sum that nothing uses -- C func { b0(): a = const 1; b = const 2; s = const 3; c = add a b; ret s } => func { b0(): v0 = const 3; ret v0 }
a division by 0 stays -- U func { b0(): a = const 1; z = const 0; d = div a z; ret a } => func { b0(): v0 = const 1; v1 = const 0; v2 = div v0 v1; ret v0 }
an argument that nothing reads -- C func { b0(): x = const 1; br b1(x); b1(a): c = const 7; ret c } => func { b0(): br b1(); b1(): v0 = const 7; ret v0 }
arguments that a sink alone reads -- C func { b0(): l, r = pair; sink l l r r; br b1(l, r); b1(a, b): k = const 99; ret k } => func { b0(): br b1(); b1(): v0 = const 99; ret v0 }
a box with what it uses -- C func { b0(): k = const 4; box { b0(): sink k }; ret } => func { b0(): ret }
an argument that goes round a loop -- U func { b0(): z = const 0; br b1(z); b1(i): r = read; cbr r b1(i) b2(); b2(): ret } \
    => func { b0(): v0 = const 0; br b1(v0); b1(v1): v2 = read; cbr v2 b1(v1) b2(); b2(): ret }
a division stays that can't trap -- U func { b0(): a = const 7; b = const -2; q = const -3; d = div a b; ret q } \
    => func { b0(): v0 = const 7; v1 = const -2; v2 = const -3; v3 = div v0 v1; ret v2 }
a product that nothing uses -- C func { b0(x): z = const 0; q = const 0; m = mul x z; ret q } => func { b0(v0): v1 = const 0; ret v1 }
an argument to which nothing is forwarded -- C func { b0(): br b1(); b1(p): ret } => func { b0(): br b1(); b1(): ret }
an operation of itself -- U func { b0(): a = add a a; ret } => func { b0(): v0 = add v0 v0; ret }
both edges of a branch to one block -- C func { b0(x): cbr x b1(x) b1(x); b1(p): ret } => func { b0(v0): cbr v0 b1() b1(); b1(): ret }
one value forwarded twice -- C func { b0(): x = const 1; br b1(x, x); b1(a, b): sink a a b; ret } => func { b0(): br b1(); b1(): ret }
a fork keeps arguments -- U func { b0(x): fork x b1 b1; b1(p): ret } => func { b0(v0): fork v0 b1 b1; b1(v1): ret }
an inner value used outside -- U func { b0(): box { b0(): k = const 4 }; print k; ret } => func { b0(): box { b0(): v0 = const 4 }; print v0; ret }
a constant that nothing uses -- C func { b0(): l = const 7; d = const 0; ret l } => func { b0(): v0 = const 7; ret v0 }
an argument that is read -- U func { b0(): x = const 1; br b1(x); b1(a): ret a } => func { b0(): v0 = const 1; br b1(v0); b1(v1): ret v1 }
an inner value that a sink alone uses -- C func { b0(): box { b0(): k = const 4 }; sink k; ret } => func { b0(): ret }
an inner value that goes to a dead argument -- C func { b0(): box { b0(): box { b0(): k = const 4 } }; br b1(k); b1(p): ret } => func { b0(): br b1(); b1(): ret }
an argument that is forwarded in the place of a dead one -- C func { b0(): x = const 1; br b1(x, x); b1(p, q): r = read; cbr r b1(q, x) b2(); b2(): ret } \
    => func { b0(): br b1(); b1(): v0 = read; cbr v0 b1() b2(); b2(): ret }
a ring of two arguments -- U func { b0(): x = const 1; br b1(x, x); b1(p, q): r = read; cbr r b1(q, p) b2(); b2(): ret } \
    => func { b0(): v0 = const 1; br b1(v0, v0); b1(v1, v2): v3 = read; cbr v3 b1(v2, v1) b2(); b2(): ret }
a ring through a sum -- U func { b0(): x = const 1; br b1(x); b1(p): s = add p p; r = read; cbr r b1(s) b2(); b2(): ret } \
    => func { b0(): v0 = const 1; br b1(v0); b1(v1): v2 = add v1 v1; v3 = read; cbr v3 b1(v2) b2(); b2(): ret }
a ring of one argument -- U func { b0(): x = const 1; br b1(x); b1(p): br b1(p) } => func { b0(): v0 = const 1; br b1(v0); b1(v1): br b1(v1) }
a dead argument beside a ring -- C func { b0(): x = const 1; br b1(x, x); b1(p, q): br b1(p) } => func { b0(): v0 = const 1; br b1(v0); b1(v1): br b1(v1) }
a function in a module -- U mod { b0(): func { b0(x): ret x } } => mod { b0(): func { b0(v0): ret v0 } }
one name in two functions -- C mod { b0(): func { b0(): a = const 1; ret }; func { b0(): br b1(a); b1(p): a = const 2; ret } } \
    => mod { b0(): func { b0(): ret }; func { b0(): br b1(); b1(): ret } }";

pub static DEFINED: &str = "\
random, well defined, 1 -- U func { b0(): v0, v1 = pair; ret v1 } => func { b0(): v0, v1 = pair; ret v1 }
random, well defined, 2 -- C func { b0(): sink; br b2(); b1(v0, v1): sink v0 v1; sink v0 v0 v0; v2, v3 = pair; v4 = add v2 v1; cbr v2 b2() b2(); b2(): sink; ret } \
    => func { b0(): br b2(); b1(): v0, v1 = pair; cbr v0 b2() b2(); b2(): ret }
random, well defined, 3 -- C func { b0(): v0 = const 2; cbr v0 b3() b1(v0); b1(v1): v2 = const -3; v3 = add v2 v1; br b3(); b2(): v4 = add v0 v0; ret v0; \
    b3(): v5 = const 0; br b1(v5) } \
    => func { b0(): v0 = const 2; cbr v0 b3() b1(); b1(): br b3(); b2(): ret v0; b3(): br b1() }
random, well defined, 4 -- C func { b0(): sink; ret; b1(v0): v1, v2 = pair; ret v1 } => func { b0(): ret; b1(): v0, v1 = pair; ret v0 }
random, well defined, 5 -- U func { b0(v0, v1): v2, v3 = pair; v4 = div v1 v3; v5 = const 0; v6 = read; cbr v5 b1() b1(); b1(): v7, v8 = pair; print v7; v9 = read; ret v2 } \
    => func { b0(v0, v1): v2, v3 = pair; v4 = div v1 v3; v5 = const 0; v6 = read; cbr v5 b1() b1(); b1(): v7, v8 = pair; print v7; v9 = read; ret v2 }
random, well defined, 6 -- C func { b0(): sink; ret; b1(v0): scope { b0(v1): v2 = mul v1 v0; cbr v0 b0(v2) b0(v1) }; v3 = div v0 v0; cbr v0 b1(v0) b1(v0); \
    b2(v4): v5 = div v4 v4; fork v5 b2 b1 } \
    => func { b0(): ret; b1(v0): scope { b0(v1): v2 = mul v1 v0; cbr v0 b0(v2) b0(v1) }; v3 = div v0 v0; cbr v0 b1(v0) b1(v0); \
        b2(v4): v5 = div v4 v4; fork v5 b2 b1 }
random, well defined, 7 -- C func { b0(): v0 = read; v1 = const -3; box { b0(): ret }; br b1(v0, v1, v0); b1(v2, v3, v4): v5 = add v2 v0; v6 = add v3 v2; ret } \
    => func { b0(): v0 = read; br b1(); b1(): ret }
random, well defined, 8 -- C func { b0(v0, v1): v2 = add v0 v0; scope { b0(): br b1(v1, v2); b1(v3, v4): sink v3 v0; br b1(v1, v4) }; cbr v0 b1(v2, v1) b1(v0, v0); \
    b1(v5, v6): v7 = div v2 v6; v8 = div v5 v5; v9 = div v1 v5; fork v1 b1 b2; b2(): v10 = read; ret } \
    => func { b0(v0, v1): v2 = add v0 v0; scope { b0(): br b1(v2); b1(v3): br b1(v3) }; cbr v0 b1(v2, v1) b1(v0, v0); \
        b1(v4, v5): v6 = div v2 v5; v7 = div v4 v4; v8 = div v1 v4; fork v1 b1 b2; b2(): v9 = read; ret }
random, well defined, 9 -- U func { b0(): br b0() } => func { b0(): br b0() }
random, well defined, 10 -- C func { b0(v0, v1): v2 = const 0; v3 = const 0; cbr v3 b2(v3) b1(v2); b1(v4): v5 = add v4 v3; cbr v3 b2(v5) b3(v1, v3); b2(v6): v7 = mul v6 v6; ret; \
    b3(v8, v9): v10, v11 = pair; v12 = mul v3 v1; cbr v3 b2(v10) b3(v11, v12) } \
    => func { b0(v0, v1): v2 = const 0; cbr v2 b2() b1(); b1(): cbr v2 b2() b3(); b2(): ret; b3(): cbr v2 b2() b3() }
random, well defined, 11 -- C func { b0(v0, v1): sink v0; cbr v1 b1(v1, v0) b2(v1, v0, v0); b1(v2, v3): v4 = add v0 v2; cbr v1 b2(v4, v4, v2) b2(v4, v4, v2); \
    b2(v5, v6, v7): scope v5 { b0(): v8 = const 2; v9 = read; v10 = div v1 v5; ret }; v11 = read; cbr v11 b3(v6) b2(v11, v11, v5); \
    b3(v12): v13 = add v1 v12; ret v13 } \
    => func { b0(v0, v1): cbr v1 b1(v1) b2(v1, v0); b1(v2): v3 = add v0 v2; cbr v1 b2(v3, v3) b2(v3, v3); \
        b2(v4, v5): scope v4 { b0(): v6 = read; v7 = div v1 v4; ret }; v8 = read; cbr v8 b3(v5) b2(v8, v8); b3(v9): v10 = add v1 v9; ret v10 }
random, well defined, 12 -- C func { b0(v0, v1): box { b0(v2): v3 = const 0; cbr v2 b0(v0) b0(v2) }; v4 = add v1 v0; v5 = const 0; cbr v1 b1(v1, v0) b1(v4, v1); \
    b1(v6, v7): box { b0(): v8 = read; sink v6 v1; br b0() }; sink; ret; b2(): v9, v10 = pair; print v10; scope { b0(): ret }; ret v10 } \
    => func { b0(v0, v1): cbr v1 b1() b1(); b1(): ret; b2(): v2, v3 = pair; print v3; scope { b0(): ret }; ret v3 }
random, well defined, 13 -- U func { b0(v0): v1 = const 0; v2 = read; cbr v0 b1(v1, v2) b1(v1, v1); b1(v3, v4): v5 = const 7; cbr v4 b1(v0, v5) b1(v3, v4) } \
    => func { b0(v0): v1 = const 0; v2 = read; cbr v0 b1(v1, v2) b1(v1, v1); b1(v3, v4): v5 = const 7; cbr v4 b1(v0, v5) b1(v3, v4) }
random, well defined, 14 -- C func { b0(v0): box { b0(v1): v2 = read; scope v2 v2 { b0(v3, v4): v5 = read; ret }; sink v2 v1 v0; br b0(v2) }; br b2(v0, v0); \
    b1(v6, v7, v8): v9 = mul v7 v8; v10 = add v8 v8; cbr v8 b2(v6, v8) b2(v9, v10); b2(v11, v12): v13, v14 = pair; v15 = div v14 v0; sink; ret } \
    => func { b0(v0): br b2(); b1(v1): cbr v1 b2() b2(); b2(): v2, v3 = pair; v4 = div v3 v0; ret }
random, well defined, 15 -- C func { b0(v0): v1 = const 0; v2 = mul v1 v1; v3 = const 7; cbr v2 b1(v0) b1(v2); b1(v4): sink v4; cbr v4 b3(v0, v4) b3(v4, v4); \
    b2(): v5 = div v3 v2; v6 = add v5 v1; br b1(v3); b3(v7, v8): v9 = div v8 v8; v10, v11 = pair; ret v10 } \
    => func { b0(v0): v1 = const 0; v2 = mul v1 v1; v3 = const 7; cbr v2 b1(v0) b1(v2); b1(v4): cbr v4 b3(v4) b3(v4); b2(): v5 = div v3 v2; br b1(v3); \
        b3(v6): v7 = div v6 v6; v8, v9 = pair; ret v8 }
random, well defined, 16 -- C func { b0(v0): v1, v2 = pair; br b2(v0); b1(v3, v4): v5 = read; v6 = mul v5 v3; box { b0(v7): sink; ret }; ret; \
    b2(v8): v9 = div v2 v8; v10 = add v1 v9; v11, v12 = pair; box { b0(): v13 = read; v14 = const 0; ret }; br b2(v11) } \
    => func { b0(v0): v1, v2 = pair; br b2(v0); b1(): v3 = read; ret; b2(v4): v5 = div v2 v4; v6, v7 = pair; br b2(v6) }
random, well defined, 17 -- U func { b0(): scope { b0(): ret }; br b1(); b1(): br b2(); b2(): v0 = const 1; ret v0 } \
    => func { b0(): scope { b0(): ret }; br b1(); b1(): br b2(); b2(): v0 = const 1; ret v0 }
random, well defined, 18 -- C func { b0(v0): scope v0 v0 { b0(v1, v2): v3 = const 0; sink; ret }; cbr v0 b1() b2(v0); b1(): sink v0; v4 = add v0 v0; sink; cbr v4 b1() b1(); \
    b2(v5): v6 = mul v5 v5; sink v5 v6 v6; ret v6 } \
    => func { b0(v0): scope v0 v0 { b0(v1, v2): ret }; cbr v0 b1() b2(v0); b1(): v3 = add v0 v0; cbr v3 b1() b1(); b2(v4): v5 = mul v4 v4; ret v5 }
random, well defined, 19 -- C func { b0(): ret; b1(v0, v1): v2 = add v0 v1; v3 = read; box { b0(): v4 = add v3 v2; v5 = add v4 v4; cbr v3 b0() b0() }; sink v3 v1 v3; br b2(v3, v2, v3); \
    b2(v6, v7, v8): v9 = const -3; v10, v11 = pair; v12 = add v7 v8; ret } \
    => func { b0(): ret; b1(): v0 = read; br b2(); b2(): ret }
random, well defined, 20 -- C func { b0(): sink; ret; b1(v0, v1): box { b0(v2): v3 = const 7; br b1(); b1(): v4 = mul v1 v3; ret }; sink v0 v0; v5 = read; br b1(v0, v1) } \
    => func { b0(): ret; b1(v0, v1): v2 = read; br b1(v0, v1) }
random, well defined, 21 -- U func { b0(): v0 = read; print v0; ret v0 } => func { b0(): v0 = read; print v0; ret v0 }
random, well defined, 22 -- C func { b0(): ret; b1(v0, v1): v2 = div v0 v0; v3 = const 0; ret v0 } => func { b0(): ret; b1(v0): v1 = div v0 v0; ret v0 }
random, well defined, 23 -- C func { b0(): v0 = const -3; v1 = read; v2 = read; v3 = const 0; cbr v3 b1(v1, v0) b3(v0); \
    b1(v4, v5): print v5; v6 = read; v7 = const 7; v8 = add v5 v5; br b2(v2, v4); b2(v9, v10): box { b0(v11): ret }; br b2(v1, v10); \
    b3(v12): sink v1 v2; v13 = read; ret v13 } \
    => func { b0(): v0 = const -3; v1 = read; v2 = read; v3 = const 0; cbr v3 b1(v1, v0) b3(); b1(v4, v5): print v5; v6 = read; br b2(v4); b2(v7): br b2(v7); \
        b3(): v8 = read; ret v8 }
random, well defined, 24 -- C func { b0(v0): scope { b0(): v1, v2 = pair; v3, v4 = pair; br b1(v0, v1, v1); \
    b1(v5, v6, v7): v8 = const 0; br b1(v5, v7, v5) }; v9 = const 2; v10 = read; cbr v9 b1(v0, v9) b1(v0, v9); \
    b1(v11, v12): print v11; print v12; print v11; v13 = add v11 v0; ret } \
    => func { b0(v0): scope { b0(): br b1(v0); b1(v1): br b1(v1) }; v2 = const 2; v3 = read; cbr v2 b1(v0, v2) b1(v0, v2); \
        b1(v4, v5): print v4; print v5; print v4; ret }
random, well defined, 25 -- U func { b0(): ret } => func { b0(): ret }
random, well defined, 26 -- C func { b0(v0, v1): v2 = read; sink v1 v1 v0; br b1(); b1(): v3 = div v1 v0; br b1(); \
    b2(v4, v5): v6 = mul v5 v4; print v5; box { b0(): br b0() }; box { b0(v7): print v7; ret }; cbr v4 b3() b1(); \
    b3(): v8 = div v1 v1; v9 = add v8 v2; ret v9 } \
    => func { b0(v0, v1): v2 = read; br b1(); b1(): v3 = div v1 v0; br b1(); b2(v4, v5): print v5; cbr v4 b3() b1(); \
        b3(): v6 = div v1 v1; v7 = add v6 v2; ret v7 }
random, well defined, 27 -- C func { b0(v0): sink v0 v0; cbr v0 b1(v0, v0, v0) b1(v0, v0, v0); b1(v1, v2, v3): v4 = read; v5 = const 0; v6 = div v5 v5; sink v3 v3; ret v1 } \
    => func { b0(v0): cbr v0 b1(v0) b1(v0); b1(v1): v2 = read; v3 = const 0; v4 = div v3 v3; ret v1 }
random, well defined, 28 -- C func { b0(v0): v1 = mul v0 v0; scope v0 { b0(v2): v3 = div v2 v2; print v3; v4 = const 1; cbr v3 b1(v2) b2(v4, v4, v3); b1(v5): br b2(v5, v5, v0); \
    b2(v6, v7, v8): v9 = mul v7 v6; v10 = read; ret }; v11, v12 = pair; cbr v12 b1(v11, v0) b1(v1, v1); \
    b1(v13, v14): v15 = const 7; v16 = mul v1 v15; ret v13 } \
    => func { b0(v0): v1 = mul v0 v0; scope v0 { b0(v2): v3 = div v2 v2; print v3; cbr v3 b1() b2(); b1(): br b2(); \
        b2(): v4 = read; ret }; v5, v6 = pair; cbr v6 b1(v5) b1(v1); b1(v7): ret v7 }
random, well defined, 29 -- U func { b0(v0, v1): print v1; scope v1 { b0(v2): ret }; v3 = add v1 v1; br b1(v3, v3, v0); \
    b1(v4, v5, v6): v7 = add v5 v3; cbr v6 b1(v3, v5, v4) b1(v5, v6, v7) } \
    => func { b0(v0, v1): print v1; scope v1 { b0(v2): ret }; v3 = add v1 v1; br b1(v3, v3, v0); \
        b1(v4, v5, v6): v7 = add v5 v3; cbr v6 b1(v3, v5, v4) b1(v5, v6, v7) }
random, well defined, 30 -- C func { b0(v0): sink v0 v0; v1, v2 = pair; cbr v1 b2() b2(); b1(v3): v4 = add v0 v3; v5 = div v3 v4; ret v5; \
    b2(): v6, v7 = pair; v8 = const 7; sink v6 v1; v9 = add v7 v0; ret } \
    => func { b0(v0): v1, v2 = pair; cbr v1 b2() b2(); b1(v3): v4 = add v0 v3; v5 = div v3 v4; ret v5; b2(): ret }
random, well defined, 31 -- C func { b0(v0): v1 = mul v0 v0; br b3(v0, v0, v1); b1(): print v0; v2 = read; fork v2 b1 b2; b2(v3, v4): v5 = add v1 v3; br b2(v4, v5); \
    b3(v6, v7, v8): v9 = const 0; v10 = read; br b1() } \
    => func { b0(v0): v1 = mul v0 v0; br b3(); b1(): print v0; v2 = read; fork v2 b1 b2; b2(v3, v4): v5 = add v1 v3; br b2(v4, v5); b3(): v6 = read; br b1() }
random, well defined, 32 -- C func { b0(v0): v1 = read; sink; cbr v1 b2(v1, v1, v1) b2(v0, v1, v0); \
    b1(v2, v3): v4 = const -3; v5 = const 0; v6 = add v4 v5; cbr v6 b2(v5, v1, v6) b1(v1, v6); b2(v7, v8, v9): v10 = mul v9 v7; br b2(v7, v7, v8) } \
    => func { b0(v0): v1 = read; cbr v1 b2(v1) b2(v0); b1(): v2 = const -3; v3 = const 0; v4 = add v2 v3; cbr v4 b2(v3) b1(); b2(v5): br b2(v5) }
random, well defined, 33 -- U func { b0(): v0, v1 = pair; v2 = add v0 v1; ret v2 } => func { b0(): v0, v1 = pair; v2 = add v0 v1; ret v2 }
random, well defined, 34 -- C func { b0(v0, v1): v2 = const 1; sink v1 v1 v0; cbr v0 b1() b2(v0, v2, v1); \
    b1(): v3 = read; v4 = const 1; v5 = mul v4 v2; sink v0 v3; cbr v4 b2(v4, v4, v5) b1(); b2(v6, v7, v8): v9 = add v1 v1; v10 = const 7; ret v8; \
    b3(v11, v12): sink v11 v1 v12; cbr v11 b1() b3(v11, v1) } \
    => func { b0(v0, v1): v2 = const 1; cbr v0 b1() b2(v1); b1(): v3 = read; v4 = const 1; v5 = mul v4 v2; cbr v4 b2(v5) b1(); b2(v6): ret v6; \
        b3(v7): cbr v7 b1() b3(v7) }
random, well defined, 35 -- C func { b0(v0): v1, v2 = pair; v3 = const 0; cbr v3 b2() b2(); b1(v4): scope { b0(): print v1; v5 = mul v4 v2; fork v0 b1 b1; \
    b1(v6, v7): v8 = read; v9 = add v7 v8; ret }; br b2(); b2(): box { b0(): cbr v3 b1(v3, v3) b1(v0, v3); \
    b1(v10, v11): v12 = const 1; br b1(v10, v2) }; ret } \
    => func { b0(v0): v1, v2 = pair; v3 = const 0; cbr v3 b2() b2(); b1(): scope { b0(): print v1; fork v0 b1 b1; b1(v4, v5): v6 = read; ret }; br b2(); \
        b2(): ret }
random, well defined, 36 -- C func { b0(): sink; scope { b0(): v0, v1 = pair; ret }; v2 = const 1; cbr v2 b1(v2, v2) b1(v2, v2); b1(v3, v4): sink v3; v5 = mul v3 v3; v6, v7 = pair; ret; \
    b2(): v8 = mul v2 v2; ret v2 } \
    => func { b0(): scope { b0(): ret }; v0 = const 1; cbr v0 b1() b1(); b1(): ret; b2(): ret v0 }
random, well defined, 37 -- U func { b0(): v0 = read; ret v0 } => func { b0(): v0 = read; ret v0 }
random, well defined, 38 -- C func { b0(v0): v1 = add v0 v0; v2 = const 1; v3 = div v0 v1; v4 = read; br b1(); b1(): v5 = read; sink v5; br b1() } \
    => func { b0(v0): v1 = add v0 v0; v2 = div v0 v1; v3 = read; br b1(); b1(): v4 = read; br b1() }
random, well defined, 39 -- C func { b0(v0): sink v0 v0 v0; v1 = const 1; v2 = div v1 v1; box { b0(): v3 = div v0 v1; fork v3 b1 b1; b1(v4): v5 = read; v6 = const 0; ret }; br b1(); \
    b1(): v7 = const -3; v8 = div v0 v1; print v7; cbr v8 b1() b2(v2, v1, v7); b2(v9, v10, v11): v12 = const 0; v13 = add v11 v11; v14 = const 2; ret v14 } \
    => func { b0(v0): v1 = const 1; v2 = div v1 v1; br b1(); b1(): v3 = const -3; v4 = div v0 v1; print v3; cbr v4 b1() b2(); b2(): v5 = const 2; ret v5 }
random, well defined, 40 -- C func { b0(v0): scope { b0(v1): v2 = mul v1 v1; ret }; scope { b0(v3): v4 = add v3 v3; br b1(v0); b1(v5): ret }; v6 = const 2; v7 = mul v6 v0; br b1(v6); \
    b1(v8): v9 = read; v10 = const 0; v11 = div v0 v9; fork v8 b1 b1; b2(v12, v13): v14 = add v12 v12; sink v6 v14; br b2(v13, v13) } \
    => func { b0(v0): scope { b0(v1): ret }; scope { b0(v2): br b1(); b1(): ret }; v3 = const 2; br b1(v3); b1(v4): v5 = read; v6 = div v0 v5; fork v4 b1 b1; \
        b2(v7): br b2(v7) }
random, well defined, 41 -- U func { b0(): v0 = const 0; v1 = read; br b1(v1); b1(v2): v3 = add v1 v0; cbr v3 b1(v2) b1(v3) } \
    => func { b0(): v0 = const 0; v1 = read; br b1(v1); b1(v2): v3 = add v1 v0; cbr v3 b1(v2) b1(v3) }
random, well defined, 42 -- C func { b0(v0, v1): v2 = read; v3 = add v1 v0; br b3(v0, v0); b1(): v4, v5 = pair; cbr v5 b3(v4, v4) b1(); \
    b2(v6, v7): v8 = add v1 v7; v9, v10 = pair; v11 = add v8 v3; br b3(v3, v9); \
    b3(v12, v13): sink; v14 = div v13 v13; v15 = const 0; v16 = div v3 v2; ret v16 } \
    => func { b0(v0, v1): v2 = read; v3 = add v1 v0; br b3(v0); b1(): v4, v5 = pair; cbr v5 b3(v4) b1(); b2(): v6, v7 = pair; br b3(v6); \
        b3(v8): v9 = div v8 v8; v10 = div v3 v2; ret v10 }
random, well defined, 43 -- C func { b0(): v0 = read; cbr v0 b1() b2(); b1(): v1 = add v0 v0; v2 = const -3; v3 = div v1 v1; cbr v2 b1() b2(); \
    b2(): box { b0(): sink v0 v0 v0; sink; ret }; v4 = mul v0 v0; br b3(v0, v4, v4); \
    b3(v5, v6, v7): v8 = add v0 v5; sink v5; v9, v10 = pair; sink v6 v9 v5; cbr v6 b2() b3(v8, v8, v9) } \
    => func { b0(): v0 = read; cbr v0 b1() b2(); b1(): v1 = add v0 v0; v2 = const -3; v3 = div v1 v1; cbr v2 b1() b2(); b2(): v4 = mul v0 v0; br b3(v0, v4); \
        b3(v5, v6): v7 = add v0 v5; cbr v6 b2() b3(v7, v7) }
random, well defined, 44 -- C func { b0(): v0 = read; v1 = div v0 v0; v2, v3 = pair; cbr v2 b1() b1(); b1(): v4 = div v3 v1; sink; cbr v4 b2(v4, v4) b1(); \
    b2(v5, v6): v7 = const 1; ret } \
    => func { b0(): v0 = read; v1 = div v0 v0; v2, v3 = pair; cbr v2 b1() b1(); b1(): v4 = div v3 v1; cbr v4 b2() b1(); b2(): ret }
random, well defined, 45 -- U func { b0(v0): v1 = div v0 v0; v2 = add v0 v0; cbr v1 b0(v2) b0(v2) } => func { b0(v0): v1 = div v0 v0; v2 = add v0 v0; cbr v1 b0(v2) b0(v2) }
random, well defined, 46 -- C func { b0(v0, v1): v2 = mul v0 v1; v3, v4 = pair; v5 = const 0; ret v1 } => func { b0(v0, v1): ret v1 }
random, well defined, 47 -- C func { b0(v0, v1): v2 = const -3; v3 = mul v1 v2; sink v1 v1; br b2(v3); b1(v4): box { b0(): print v0; ret }; sink v3; print v4; br b2(v4); \
    b2(v5): box { b0(): br b1(v1); b1(v6): v7 = div v6 v6; v8 = add v7 v0; ret }; v9, v10 = pair; br b2(v9) } \
    => func { b0(v0, v1): br b2(); b1(v2): print v2; br b2(); b2(): br b2() }
random, well defined, 48 -- C func { b0(v0): v1 = const 0; cbr v0 b2(v0, v1) b1(); b1(): sink; v2 = read; v3 = const 2; v4 = const 0; br b1(); b2(v5, v6): v7 = const 2; ret v1 } \
    => func { b0(v0): v1 = const 0; cbr v0 b2() b1(); b1(): v2 = read; br b1(); b2(): ret v1 }
random, well defined, 49 -- U func { b0(v0): v1 = mul v0 v0; print v1; br b1(v0); b1(v2): v3 = const 0; v4 = read; cbr v3 b1(v3) b1(v2) } \
    => func { b0(v0): v1 = mul v0 v0; print v1; br b1(v0); b1(v2): v3 = const 0; v4 = read; cbr v3 b1(v3) b1(v2) }
random, well defined, 50 -- C func { b0(v0, v1): v2 = const -3; v3 = read; box { b0(): v4 = const -3; v5 = add v2 v4; v6 = add v5 v5; cbr v6 b0() b0() }; cbr v0 b1(v1) b1(v2); \
    b1(v7): v8 = add v7 v7; v9 = div v7 v8; sink; v10 = const 2; ret v8 } \
    => func { b0(v0, v1): v2 = const -3; v3 = read; cbr v0 b1(v1) b1(v2); b1(v4): v5 = add v4 v4; v6 = div v4 v5; ret v5 }
random, well defined, 51 -- C func { b0(): box { b0(v0): v1 = add v0 v0; v2 = mul v1 v1; cbr v1 b0(v0) b0(v1) }; ret; \
    b1(v3): v4 = mul v3 v3; scope { b0(v5): v6 = add v5 v5; v7, v8 = pair; ret }; cbr v3 b1(v4) b1(v3); b2(): ret } \
    => func { b0(): ret; b1(v0): v1 = mul v0 v0; scope { b0(v2): ret }; cbr v0 b1(v1) b1(v0); b2(): ret }
random, well defined, 52 -- C func { b0(v0, v1): scope { b0(v2): v3, v4 = pair; cbr v2 b0(v3) b0(v4) }; box { b0(): sink v0 v0; sink; cbr v1 b1(v1) b1(v1); \
    b1(v5): v6 = mul v1 v1; ret }; br b0(v0, v1) } \
    => func { b0(v0, v1): scope { b0(v2): v3, v4 = pair; cbr v2 b0(v3) b0(v4) }; br b0(v0, v1) }
random, well defined, 53 -- U func { b0(v0, v1): v2 = read; v3 = div v1 v0; cbr v0 b0(v2, v0) b0(v3, v3) } => func { b0(v0, v1): v2 = read; v3 = div v1 v0; cbr v0 b0(v2, v0) b0(v3, v3) }
random, well defined, 54 -- C func { b0(): v0 = read; cbr v0 b2(v0, v0) b1(v0, v0); b1(v1, v2): v3 = div v2 v2; v4 = add v2 v1; ret v3; \
    b2(v5, v6): sink v5; v7 = const 1; v8 = read; ret } \
    => func { b0(): v0 = read; cbr v0 b2() b1(v0); b1(v1): v2 = div v1 v1; ret v2; b2(): v3 = read; ret }
random, well defined, 55 -- C func { b0(v0): v1, v2 = pair; v3, v4 = pair; v5 = add v1 v4; sink v1; cbr v5 b1(v1) b1(v0); \
    b1(v6): v7 = div v6 v6; scope v1 v7 { b0(v8): v9, v10 = pair; sink v7; cbr v6 b1(v9, v9) b1(v4, v2); \
    b1(v11, v12): v13 = const 2; ret }; print v6; ret v4 } \
    => func { b0(v0): v1, v2 = pair; v3, v4 = pair; v5 = add v1 v4; cbr v5 b1(v1) b1(v0); b1(v6): v7 = div v6 v6; scope v1 v7 { b0(v8): cbr v6 b1() b1(); \
        b1(): ret }; print v6; ret v4 }
random, well defined, 56 -- C func { b0(): scope { b0(): v0, v1 = pair; cbr v1 b1(v1, v1, v0) b1(v1, v1, v0); b1(v2, v3, v4): v5 = const 0; v6 = mul v3 v5; ret }; br b1(); b1(): ret } \
    => func { b0(): scope { b0(): v0, v1 = pair; cbr v1 b1() b1(); b1(): ret }; br b1(); b1(): ret }
random, well defined, 57 -- U func { b0(v0, v1): v2 = read; print v1; ret } => func { b0(v0, v1): v2 = read; print v1; ret }
random, well defined, 58 -- C func { b0(): scope { b0(): ret }; v0 = const 7; sink v0; ret v0 } => func { b0(): scope { b0(): ret }; v0 = const 7; ret v0 }
random, well defined, 59 -- C func { b0(): v0 = const 0; cbr v0 b2(v0) b2(v0); b1(v1): v2 = add v1 v0; ret; b2(v3): sink v3; v4 = read; v5 = const 2; ret v3 } \
    => func { b0(): v0 = const 0; cbr v0 b2(v0) b2(v0); b1(): ret; b2(v1): v2 = read; ret v1 }
random, well defined, 60 -- C func { b0(v0, v1): v2 = const 7; v3, v4 = pair; br b1(v3); b1(v5): v6 = add v2 v5; v7 = add v6 v4; ret } => func { b0(v0, v1): br b1(); b1(): ret }
random, well defined, 61 -- U func { b0(v0, v1): v2 = const 0; print v0; cbr v0 b0(v1, v1) b0(v0, v2) } => func { b0(v0, v1): v2 = const 0; print v0; cbr v0 b0(v1, v1) b0(v0, v2) }
random, well defined, 62 -- C func { b0(v0, v1): v2 = mul v0 v0; v3 = add v0 v2; cbr v2 b1() b1(); b1(): box { b0(v4): v5 = mul v4 v4; ret }; ret v0 } \
    => func { b0(v0, v1): v2 = mul v0 v0; cbr v2 b1() b1(); b1(): ret v0 }
random, well defined, 63 -- C func { b0(v0, v1): sink v0 v1; br b1(); b1(): v2 = mul v1 v0; scope v2 { b0(v3): print v3; v4 = read; v5 = add v3 v1; cbr v5 b1(v4) b1(v5); \
    b1(v6): sink v6 v6 v6; v7 = read; ret }; v8 = const 7; br b1() } \
    => func { b0(v0, v1): br b1(); b1(): v2 = mul v1 v0; scope v2 { b0(v3): print v3; v4 = read; v5 = add v3 v1; cbr v5 b1() b1(); \
        b1(): v6 = read; ret }; br b1() }
random, well defined, 64 -- C func { b0(v0, v1): v2 = const 0; sink v1 v1; cbr v1 b1(v0, v1) b2(v2); b1(v3, v4): sink v4; br b2(v2); b2(v5): v6 = const 1; scope { b0(): sink; br b2(); \
    b1(v7, v8): v9 = const 7; br b1(v8, v7); b2(): cbr v0 b2() b1(v5, v1) }; ret v5 } \
    => func { b0(v0, v1): v2 = const 0; cbr v1 b1() b2(v2); b1(): br b2(v2); b2(v3): scope { b0(): br b2(); b1(v4, v5): br b1(v5, v4); \
        b2(): cbr v0 b2() b1(v3, v1) }; ret v3 }
random, well defined, 65 -- U func { b0(v0): v1 = div v0 v0; v2 = read; br b0(v0) } => func { b0(v0): v1 = div v0 v0; v2 = read; br b0(v0) }
random, well defined, 66 -- C func { b0(): v0 = read; sink v0 v0; v1 = read; v2 = const 0; fork v0 b1 b1; b1(): ret v2 } \
    => func { b0(): v0 = read; v1 = read; v2 = const 0; fork v0 b1 b1; b1(): ret v2 }
random, well defined, 67 -- C func { b0(v0): v1 = const 0; box { b0(): ret }; cbr v0 b2(v0) b2(v1); b1(v2, v3): br b3(v3); b2(v4): v5 = read; sink v4 v0; br b1(v5, v4); \
    b3(v6): sink v6 v6; v7 = const 1; scope v6 v1 { b0(v8): scope v8 v0 { b0(v9, v10): ret }; v11 = div v8 v8; ret }; ret } \
    => func { b0(v0): v1 = const 0; cbr v0 b2(v0) b2(v1); b1(v2): br b3(v2); b2(v3): v4 = read; br b1(v3); \
        b3(v5): scope v5 v1 { b0(v6): scope v6 v0 { b0(v7, v8): ret }; v9 = div v6 v6; ret }; ret }
random, well defined, 68 -- C func { b0(): v0, v1 = pair; sink v1; cbr v1 b1(v0, v1) b1(v0, v1); b1(v2, v3): v4 = div v2 v1; v5 = const -3; ret v4 } \
    => func { b0(): v0, v1 = pair; cbr v1 b1(v0) b1(v0); b1(v2): v3 = div v2 v1; ret v3 }
random, well defined, 69 -- U func { b0(): v0 = const 1; v1 = mul v0 v0; v2 = read; cbr v2 b1(v1) b1(v1); b1(v3): v4 = div v3 v3; ret v4 } \
    => func { b0(): v0 = const 1; v1 = mul v0 v0; v2 = read; cbr v2 b1(v1) b1(v1); b1(v3): v4 = div v3 v3; ret v4 }
random, well defined, 70 -- C func { b0(v0): v1 = div v0 v0; br b1(v1, v0, v0); b1(v2, v3, v4): v5 = const -3; v6 = mul v3 v4; v7, v8 = pair; box { b0(): v9 = add v5 v4; sink v9 v9 v9; \
    br b1(v7, v9); b1(v10, v11): v12 = const 0; sink v12 v11 v10; cbr v0 b1(v12, v10) b1(v8, v6) }; fork v8 b1 b2; \
    b2(): v13 = const 1; v14 = const 0; br b1(v14, v14, v13) } \
    => func { b0(v0): v1 = div v0 v0; br b1(v1, v0, v0); b1(v2, v3, v4): v5, v6 = pair; fork v6 b1 b2; b2(): v7 = const 1; v8 = const 0; br b1(v8, v8, v7) }
random, well defined, 71 -- C func { b0(v0): v1 = const 0; v2 = const 7; cbr v2 b1() b2(); b1(): sink v0; scope { b0(): v3 = add v0 v2; v4 = div v3 v3; cbr v4 b1(v4) b1(v0); \
    b1(v5): v6 = add v5 v5; ret }; v7 = const 0; v8 = read; cbr v8 b2() b2(); b2(): v9 = div v2 v0; ret v9 } \
    => func { b0(v0): v1 = const 7; cbr v1 b1() b2(); b1(): scope { b0(): v2 = add v0 v1; v3 = div v2 v2; cbr v3 b1() b1(); \
        b1(): ret }; v4 = read; cbr v4 b2() b2(); b2(): v5 = div v1 v0; ret v5 }
random, well defined, 72 -- C func { b0(v0, v1): sink v0 v1 v1; v2 = read; br b1(v1, v1); b1(v3, v4): v5 = const 0; sink v3; br b1(v5, v4) } \
    => func { b0(v0, v1): v2 = read; br b1(v1); b1(v3): br b1(v3) }
random, well defined, 73 -- U func { b0(): v0 = const 1; br b1(v0); b1(v1): v2 = read; ret v1 } => func { b0(): v0 = const 1; br b1(v0); b1(v1): v2 = read; ret v1 }
random, well defined, 74 -- C func { b0(v0, v1): v2 = add v0 v1; v3 = mul v0 v1; v4 = const -3; print v1; cbr v4 b1(v0) b1(v1); b1(v5): sink v5 v5 v3; ret v5 } \
    => func { b0(v0, v1): v2 = const -3; print v1; cbr v2 b1(v0) b1(v1); b1(v3): ret v3 }
random, well defined, 75 -- C func { b0(v0, v1): v2 = const -3; scope v1 { b0(v3): sink v3; cbr v3 b1(v3, v3) b1(v3, v3); b1(v4, v5): sink v5 v3; v6 = add v5 v4; sink v6 v4; ret; \
    b2(v7): br b2(v7) }; v8 = const 2; br b1(v2, v1, v2); b1(v9, v10, v11): v12 = read; v13 = read; cbr v10 b1(v12, v13, v10) b2(v11); \
    b2(v14): v15 = read; v16 = add v14 v14; ret v16 } \
    => func { b0(v0, v1): v2 = const -3; scope v1 { b0(v3): cbr v3 b1() b1(); b1(): ret; b2(v4): br b2(v4) }; br b1(v1, v2); \
        b1(v5, v6): v7 = read; v8 = read; cbr v5 b1(v8, v5) b2(v6); b2(v9): v10 = read; v11 = add v9 v9; ret v11 }
random, well defined, 76 -- C func { b0(): sink; ret; b1(v0, v1): v2 = read; v3 = const 7; cbr v2 b3() b3(); b2(v4, v5): sink v5; cbr v5 b1(v4, v5) b1(v4, v5); \
    b3(): box { b0(): ret }; v6 = read; ret } \
    => func { b0(): ret; b1(): v0 = read; cbr v0 b3() b3(); b2(v1): cbr v1 b1() b1(); b3(): v2 = read; ret }
random, well defined, 77 -- U func { b0(): v0, v1 = pair; v2 = const 2; cbr v2 b1(v1) b1(v0); b1(v3): v4 = div v3 v3; ret v4 } \
    => func { b0(): v0, v1 = pair; v2 = const 2; cbr v2 b1(v1) b1(v0); b1(v3): v4 = div v3 v3; ret v4 }
random, well defined, 78 -- C func { b0(v0): v1 = read; v2, v3 = pair; br b1(v2); b1(v4): box { b0(): v5 = const -3; sink v5; ret }; sink v4; v6 = div v4 v4; cbr v4 b1(v4) b1(v6); \
    b2(): v7 = const 1; v8 = add v7 v7; scope v2 v8 { b0(): v9, v10 = pair; v11 = add v3 v10; ret }; ret v7 } \
    => func { b0(v0): v1 = read; v2, v3 = pair; br b1(v2); b1(v4): v5 = div v4 v4; cbr v4 b1(v4) b1(v5); \
        b2(): v6 = const 1; v7 = add v6 v6; scope v2 v7 { b0(): ret }; ret v6 }
random, well defined, 79 -- C func { b0(v0): scope v0 v0 { b0(): sink v0 v0 v0; cbr v0 b1(v0, v0, v0) b1(v0, v0, v0); \
    b1(v1, v2, v3): v4 = mul v3 v2; ret }; v5 = mul v0 v0; cbr v5 b1(v5, v5) b1(v0, v0); b1(v6, v7): sink; v8, v9 = pair; ret v7 } \
    => func { b0(v0): scope v0 v0 { b0(): cbr v0 b1() b1(); b1(): ret }; v1 = mul v0 v0; cbr v1 b1(v1) b1(v0); b1(v2): ret v2 }
random, well defined, 80 -- C func { b0(v0): v1 = const -3; cbr v1 b2(v0, v1, v0) b2(v0, v1, v1); b1(v2, v3, v4): box { b0(): v5 = add v4 v1; ret }; v6 = div v0 v3; \
    cbr v0 b1(v6, v4, v6) b1(v2, v4, v3); b2(v7, v8, v9): v10 = const 1; v11 = add v9 v8; v12 = read; v13 = const 1; ret v11 } \
    => func { b0(v0): v1 = const -3; cbr v1 b2(v1, v0) b2(v1, v1); b1(v2, v3, v4): v5 = div v0 v3; cbr v0 b1(v5, v4, v5) b1(v2, v4, v3); \
        b2(v6, v7): v8 = add v7 v6; v9 = read; ret v8 }
random, well defined, 81 -- U func { b0(v0): v1 = read; br b1(); b1(): v2 = mul v1 v1; cbr v2 b1() b1() } => func { b0(v0): v1 = read; br b1(); b1(): v2 = mul v1 v1; cbr v2 b1() b1() }
random, well defined, 82 -- C func { b0(): v0 = read; v1 = mul v0 v0; v2 = mul v0 v1; ret } => func { b0(): v0 = read; ret }
random, well defined, 83 -- C func { b0(v0): v1 = add v0 v0; v2 = add v1 v1; br b1(v2, v0); b1(v3, v4): v5 = const 0; v6 = add v4 v5; v7 = read; v8 = const 1; ret } \
    => func { b0(v0): br b1(); b1(): v1 = read; ret }
random, well defined, 84 -- C func { b0(v0, v1): sink v0 v1 v0; sink v0 v1; v2 = div v1 v0; br b1(v0, v2); b1(v3, v4): v5 = mul v4 v4; ret v1 } \
    => func { b0(v0, v1): v2 = div v1 v0; br b1(); b1(): ret v1 }
random, well defined, 85 -- U func { b0(v0): v1 = div v0 v0; cbr v0 b1() b1(); b1(): v2 = div v1 v1; scope v0 v0 { b0(): scope v1 { b0(v3): ret }; cbr v2 b1() b1(); b1(): ret }; ret } \
    => func { b0(v0): v1 = div v0 v0; cbr v0 b1() b1(); b1(): v2 = div v1 v1; scope v0 v0 { b0(): scope v1 { b0(v3): ret }; cbr v2 b1() b1(); \
        b1(): ret }; ret }
random, well defined, 86 -- C func { b0(v0): v1 = mul v0 v0; cbr v1 b1() b2(v1, v0); b1(): v2 = const 2; sink v2 v2 v1; cbr v2 b2(v0, v2) b3(v0, v2, v0); \
    b2(v3, v4): scope v3 v4 { b0(v5, v6): ret }; sink v4 v3; v7 = const 0; v8 = add v3 v0; br b2(v7, v8); \
    b3(v9, v10, v11): v12 = add v9 v0; v13 = mul v1 v10; v14 = read; v15 = add v9 v9; ret v9 } \
    => func { b0(v0): v1 = mul v0 v0; cbr v1 b1() b2(v1, v0); b1(): v2 = const 2; cbr v2 b2(v0, v2) b3(v0); \
        b2(v3, v4): scope v3 v4 { b0(v5, v6): ret }; v7 = const 0; v8 = add v3 v0; br b2(v7, v8); b3(v9): v10 = read; ret v9 }
random, well defined, 87 -- C func { b0(): v0 = const 7; v1 = add v0 v0; v2 = const 2; cbr v0 b2(v0) b2(v2); b1(): sink v2; ret; b2(v3): v4 = const 0; v5 = read; ret v5 } \
    => func { b0(): v0 = const 7; cbr v0 b2() b2(); b1(): ret; b2(): v1 = read; ret v1 }
random, well defined, 88 -- C func { b0(v0): v1, v2 = pair; sink v1 v2; sink v1 v1; cbr v0 b1() b2(v1); b1(): v3 = add v2 v0; cbr v2 b1() b1(); b2(v4): sink v4; v5, v6 = pair; ret } \
    => func { b0(v0): v1, v2 = pair; cbr v0 b1() b2(); b1(): cbr v2 b1() b1(); b2(): ret }
random, well defined, 89 -- U func { b0(v0, v1): v2 = div v0 v1; ret v2 } => func { b0(v0, v1): v2 = div v0 v1; ret v2 }
random, well defined, 90 -- C func { b0(): scope { b0(): v0, v1 = pair; br b0() }; ret; b1(v2, v3): v4 = read; v5 = const -3; cbr v3 b2(v3, v3) b1(v4, v2); \
    b2(v6, v7): v8 = div v6 v6; ret v7 } \
    => func { b0(): scope { b0(): br b0() }; ret; b1(v0, v1): v2 = read; cbr v1 b2(v1, v1) b1(v2, v0); b2(v3, v4): v5 = div v3 v3; ret v4 }
random, well defined, 91 -- C func { b0(v0): v1 = add v0 v0; v2, v3 = pair; cbr v3 b1(v2, v1) b1(v2, v1); b1(v4, v5): v6 = const 7; sink v5 v5; ret } \
    => func { b0(v0): v1, v2 = pair; cbr v2 b1() b1(); b1(): ret }
random, well defined, 92 -- C func { b0(): sink; ret; b1(v0, v1): v2 = add v0 v0; v3 = mul v0 v0; ret } => func { b0(): ret; b1(): ret }
random, well defined, 93 -- U func { b0(): v0 = read; v1 = add v0 v0; v2 = add v0 v0; cbr v0 b1(v2, v2) b1(v2, v0); b1(v3, v4): v5 = mul v3 v1; v6 = add v5 v5; cbr v6 b1(v6, v4) b2(); \
    b2(): v7 = const 0; fork v7 b2 b1 } \
    => func { b0(): v0 = read; v1 = add v0 v0; v2 = add v0 v0; cbr v0 b1(v2, v2) b1(v2, v0); \
        b1(v3, v4): v5 = mul v3 v1; v6 = add v5 v5; cbr v6 b1(v6, v4) b2(); b2(): v7 = const 0; fork v7 b2 b1 }
random, well defined, 94 -- C func { b0(): sink; v0 = const 7; br b1(); b1(): v1, v2 = pair; ret v0 } => func { b0(): v0 = const 7; br b1(); b1(): ret v0 }
random, well defined, 95 -- C func { b0(): box { b0(v0): v1 = const 0; sink v0 v0; ret }; v2 = const 0; v3 = mul v2 v2; ret v2 } => func { b0(): v0 = const 0; ret v0 }
random, well defined, 96 -- C func { b0(): sink; scope { b0(): v0 = const 0; v1 = read; cbr v0 b1(v0, v1, v0) b2(v1, v1); b1(v2, v3, v4): ret; b2(v5, v6): v7 = add v5 v6; ret }; ret; \
    b1(): v8 = read; v9 = const 0; br b1(); b2(): v10 = const -3; br b3(v10); b3(v11): v12, v13 = pair; sink v11; ret } \
    => func { b0(): scope { b0(): v0 = const 0; v1 = read; cbr v0 b1() b2(); b1(): ret; b2(): ret }; ret; b1(): v2 = read; br b1(); b2(): br b3(); b3(): ret }
random, well defined, 97 -- U func { b0(v0): v1 = const -3; v2, v3 = pair; br b1(v3); b1(v4): v5 = add v0 v4; v6 = div v5 v4; cbr v1 b1(v4) b1(v0) } \
    => func { b0(v0): v1 = const -3; v2, v3 = pair; br b1(v3); b1(v4): v5 = add v0 v4; v6 = div v5 v4; cbr v1 b1(v4) b1(v0) }
random, well defined, 98 -- C func { b0(): v0 = const 0; cbr v0 b1() b1(); b1(): sink v0; ret v0 } => func { b0(): v0 = const 0; cbr v0 b1() b1(); b1(): ret v0 }
random, well defined, 99 -- C func { b0(v0, v1): scope v1 { b0(v2): box { b0(): v3 = add v1 v0; br b0() }; v4 = mul v2 v0; br b1(v2); \
    b1(v5): v6 = const 7; ret }; v7 = div v0 v0; v8 = add v1 v7; br b2(v8, v8); b1(v9): v10 = const 0; v11 = add v10 v9; v12 = const 7; ret v9; \
    b2(v13, v14): sink v8 v14; v15 = add v14 v0; ret v13 } \
    => func { b0(v0, v1): scope v1 { b0(v2): br b1(); b1(): ret }; v3 = div v0 v0; v4 = add v1 v3; br b2(v4); b1(v5): ret v5; b2(v6): ret v6 }
random, well defined, 100 -- C func { b0(): box { b0(v0): ret }; v1 = const 7; cbr v1 b1() b1(); b1(): v2, v3 = pair; v4 = add v3 v3; ret } \
    => func { b0(): v0 = const 7; cbr v0 b1() b1(); b1(): ret }
random, well defined, 101 -- U func { b0(): v0 = const 7; v1 = div v0 v0; ret v1 } => func { b0(): v0 = const 7; v1 = div v0 v0; ret v1 }
random, well defined, 102 -- C func { b0(v0, v1): v2 = read; v3 = div v0 v0; cbr v3 b1(v2, v0) b1(v0, v1); \
    b1(v4, v5): v6 = add v1 v4; v7 = div v5 v5; v8 = add v6 v6; v9 = add v5 v5; ret v5 } \
    => func { b0(v0, v1): v2 = read; v3 = div v0 v0; cbr v3 b1(v0) b1(v1); b1(v4): v5 = div v4 v4; ret v4 }
random, well defined, 103 -- C func { b0(v0, v1): v2 = div v0 v0; v3 = mul v0 v1; cbr v0 b1(v0) b2(v0, v0, v1); b1(v4): v5 = const 2; print v5; br b1(v4); \
    b2(v6, v7, v8): v9 = add v6 v6; ret } \
    => func { b0(v0, v1): v2 = div v0 v0; cbr v0 b1(v0) b2(); b1(v3): v4 = const 2; print v4; br b1(v3); b2(): ret }
random, well defined, 104 -- C func { b0(): v0 = const 0; cbr v0 b1(v0, v0) b1(v0, v0); b1(v1, v2): box { b0(): v3 = add v1 v2; ret }; v4, v5 = pair; ret v2 } \
    => func { b0(): v0 = const 0; cbr v0 b1(v0) b1(v0); b1(v1): ret v1 }
random, well defined, 105 -- U func { b0(v0, v1): v2 = const 2; cbr v0 b1(v2) b1(v2); b1(v3): v4 = read; ret v3 } \
    => func { b0(v0, v1): v2 = const 2; cbr v0 b1(v2) b1(v2); b1(v3): v4 = read; ret v3 }
random, well defined, 106 -- C func { b0(v0, v1): v2, v3 = pair; ret } => func { b0(v0, v1): ret }
random, well defined, 107 -- C func { b0(v0): scope v0 v0 { b0(v1, v2): v3, v4 = pair; sink; cbr v1 b2() b2(); b1(v5): v6, v7 = pair; cbr v7 b2() b1(v2); \
    b2(): v8 = const 2; ret }; br b1(v0, v0); b1(v9, v10): v11 = read; v12 = add v10 v11; ret v11 } \
    => func { b0(v0): scope v0 v0 { b0(v1, v2): cbr v1 b2() b2(); b1(): v3, v4 = pair; cbr v4 b2() b1(); b2(): ret }; br b1(); b1(): v5 = read; ret v5 }
random, well defined, 108 -- C func { b0(): box { b0(v0): scope v0 { b0(v1): print v1; v2 = const 0; ret }; ret }; sink; ret } => func { b0(): ret }
random, well defined, 109 -- U func { b0(): v0 = const 0; v1 = mul v0 v0; v2 = div v0 v1; ret v1 } => func { b0(): v0 = const 0; v1 = mul v0 v0; v2 = div v0 v1; ret v1 }
random, well defined, 110 -- C func { b0(): box { b0(v0): box { b0(v1): ret }; v2 = add v0 v0; v3 = const -3; ret }; ret; \
    b1(v4, v5, v6): v7 = const 2; sink; scope v6 v6 { b0(v8, v9): box { b0(v10): v11 = add v9 v10; ret }; ret }; cbr v5 b1(v6, v5, v5) b1(v4, v6, v5); \
    b2(v12): v13 = add v12 v12; ret } \
    => func { b0(): ret; b1(v0, v1, v2): scope v2 v2 { b0(v3, v4): ret }; cbr v1 b1(v2, v1, v1) b1(v0, v2, v1); b2(): ret }
random, well defined, 111 -- C func { b0(v0, v1): print v1; v2 = div v0 v0; v3 = add v2 v1; box { b0(): sink v2 v3; v4 = read; ret }; cbr v0 b2(v0) b2(v3); \
    b1(v5, v6, v7): v8 = mul v7 v6; v9 = mul v8 v7; ret v5; b2(v10): v11, v12 = pair; v13 = mul v11 v10; v14 = add v11 v10; ret } \
    => func { b0(v0, v1): print v1; v2 = div v0 v0; cbr v0 b2() b2(); b1(v3): ret v3; b2(): ret }
random, well defined, 112 -- C func { b0(v0): v1 = div v0 v0; box { b0(): br b1(v0); b1(v2): box { b0(): v3 = add v2 v2; ret }; sink v1; br b1(v2) }; v4 = read; v5, v6 = pair; ret v4 } \
    => func { b0(v0): v1 = div v0 v0; v2 = read; ret v2 }
random, well defined, 113 -- U func { b0(v0): v1 = mul v0 v0; scope v0 { b0(v2): ret }; cbr v0 b0(v1) b0(v0) } \
    => func { b0(v0): v1 = mul v0 v0; scope v0 { b0(v2): ret }; cbr v0 b0(v1) b0(v0) }
random, well defined, 114 -- C func { b0(v0, v1): v2 = const 1; v3 = add v0 v1; sink v2 v2; br b1(v3, v2, v1); \
    b1(v4, v5, v6): v7 = const -3; v8 = read; sink v5 v0 v8; box { b0(): cbr v1 b0() b0() }; br b3(); \
    b2(): sink v0 v0; sink v1 v0 v1; v9 = add v2 v3; cbr v3 b3() b3(); b3(): v10 = add v1 v0; cbr v10 b2() b2() } \
    => func { b0(v0, v1): v2 = add v0 v1; br b1(); b1(): v3 = read; br b3(); b2(): cbr v2 b3() b3(); b3(): v4 = add v1 v0; cbr v4 b2() b2() }
random, well defined, 115 -- C func { b0(v0): v1, v2 = pair; sink; cbr v2 b1(v2, v2, v2) b1(v0, v0, v0); \
    b1(v3, v4, v5): v6 = const -3; print v4; box { b0(): box { b0(v7): v8 = add v1 v0; cbr v7 b0(v8) b0(v0) }; ret }; v9 = const 0; ret } \
    => func { b0(v0): v1, v2 = pair; cbr v2 b1(v2) b1(v0); b1(v3): print v3; ret }
random, well defined, 116 -- C func { b0(v0): sink; cbr v0 b2() b3(v0, v0, v0); b1(): v1, v2 = pair; v3 = mul v2 v1; ret v0; b2(): box { b0(v4): cbr v4 b1(v4) b1(v0); \
    b1(v5): ret }; v6 = const 0; sink; v7 = add v6 v6; ret v7; b3(v8, v9, v10): v11 = const 1; v12 = div v10 v11; ret v9 } \
    => func { b0(v0): cbr v0 b2() b3(v0, v0); b1(): ret v0; b2(): v1 = const 0; v2 = add v1 v1; ret v2; b3(v3, v4): v5 = const 1; v6 = div v4 v5; ret v3 }
random, well defined, 117 -- U func { b0(v0, v1): v2 = read; br b1(v1); b1(v3): v4 = const 2; v5 = add v4 v3; ret v5 } \
    => func { b0(v0, v1): v2 = read; br b1(v1); b1(v3): v4 = const 2; v5 = add v4 v3; ret v5 }
random, well defined, 118 -- C func { b0(): scope { b0(v0): v1 = mul v0 v0; v2 = add v1 v1; ret }; ret; b1(): v3 = read; v4 = mul v3 v3; v5 = const 0; v6 = const 0; ret v6 } \
    => func { b0(): scope { b0(v0): ret }; ret; b1(): v1 = read; v2 = const 0; ret v2 }
random, well defined, 119 -- C func { b0(v0): sink v0; sink v0 v0; br b2(); b1(v1): v2 = const -3; v3 = add v2 v2; v4 = mul v1 v1; cbr v2 b2() b1(v3); \
    b2(): v5 = div v0 v0; v6, v7 = pair; cbr v6 b2() b2(); b3(v8, v9, v10): v11 = mul v10 v0; v12 = mul v9 v10; v13 = const 2; ret v8 } \
    => func { b0(v0): br b2(); b1(): v1 = const -3; cbr v1 b2() b1(); b2(): v2 = div v0 v0; v3, v4 = pair; cbr v3 b2() b2(); b3(v5): ret v5 }
random, well defined, 120 -- C func { b0(v0, v1): scope v0 { b0(v2): v3 = add v2 v0; box { b0(v4): v5 = read; v6 = mul v5 v1; ret }; box { b0(v7): sink v7; ret }; ret }; v8 = add v0 v0; \
    cbr v0 b1() b1(); b1(): box { b0(): cbr v0 b1(v8, v1) b1(v1, v1); b1(v9, v10): v11 = mul v8 v0; ret }; br b1() } \
    => func { b0(v0, v1): scope v0 { b0(v2): ret }; cbr v0 b1() b1(); b1(): br b1() }";
