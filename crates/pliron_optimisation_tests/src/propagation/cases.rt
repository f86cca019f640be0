//! Texts, and what constant propagation makes of them, worked out by hand.
//!
//! A line has a name; `C` before a text that changes and `U` before one that does not; then how many blocks are
//! executable, how many values defined in these are constants and how many others are not; then the text before and
//! after.
//!
//! - `ROWS`: texts that make sense.
//! - `HOSTILE`, without counts: texts that are well linked alone. Uses are before definitions or use themselves, edges
//!   forward too few values or too many, and blocks end without a terminator. The order of work decides nothing.
//! - `DEFERRED`: an operation has more operands than what is visited at once.
//!   - Sums of a loop are lowered one after the other, and a branch behind it forwards them.
//!   - Branches come to be feasible only when their condition is lowered: one by itself, one after what it forwards,
//!     and two of which the shorter one is visited first.
//!   - In a loop such a branch lowers its own operands; in another one two lower each other's in turn.
//!   - A branch forwards its last operand, which is lowered, along an edge that isn't feasible, to a block that is
//!     reached.
//!   - A loop moves the arguments of a `scope` on to its next operands. There are three operands; or ten, of which the
//!     last two stay constant: the loop forwards a constant to the ninth, and to the tenth what is named for it.
//! - `ENTERED`: operations that are no branches lead to blocks of nine arguments.
//!   - Two lead to one of these, and one twice to a block of eight.
//!   - Three edges lead to a block to which a branch forwarded constants, visited before the first of them or after it.
//!   - An edge leads from such a block to itself.
//!   - An edge leads to a block to which a branch forwards constants later; branches alone enter the block beside it.

pub static ROWS: &str = "\
a sum of two constants -- C blocks=1 constants=3 others=0 func { b0(): a = const 1; b = const 2; c = add a b; ret c } => func { b0(): v0 = const 1; v1 = const 2; v2 = const 3; v3 = add v0 v1; ret v2 }
a sum that was folded before -- C blocks=1 constants=4 others=0 func { b0(): v0 = const 1; v1 = const 2; v2 = const 3; v3 = add v0 v1; ret v2 } \
    => func { b0(): v0 = const 1; v1 = const 2; v2 = const 3; v3 = const 3; v4 = add v0 v1; ret v2 }
a constant that goes round a loop -- C blocks=3 constants=2 others=1 func { b0(): z = const 0; br b1(z); b1(i): r = read; cbr r b1(i) b2(); b2(): ret i } \
    => func { b0(): v0 = const 0; br b1(v0); b1(v1): v2 = const 0; v3 = read; cbr v3 b1(v2) b2(); b2(): ret v2 }
two constant arguments of one block -- C blocks=2 constants=4 others=0 func { b0(): a = const 1; b = const 2; br b1(a, b); b1(p, q): ret p q } \
    => func { b0(): v0 = const 1; v1 = const 2; br b1(v0, v1); b1(v2, v3): v4 = const 2; v5 = const 1; ret v5 v4 }
a fork hands its block no constant -- U blocks=3 constants=1 others=2 func { b0(x): c = const 3; cbr x b1(c) b2(); b1(p): ret p; b2(): fork x b1 b1 } \
    => func { b0(v0): v1 = const 3; cbr v0 b1(v1) b2(); b1(v2): ret v2; b2(): fork v0 b1 b1 }
a sum that wraps -- C blocks=1 constants=3 others=0 func { b0(): a = const 9223372036854775807; b = const 1; c = add a b; ret c } \
    => func { b0(): v0 = const 9223372036854775807; v1 = const 1; v2 = const -9223372036854775808; v3 = add v0 v1; ret v2 }
the smallest number divided by minus one -- U blocks=1 constants=2 others=1 func { b0(): a = const -9223372036854775808; b = const -1; d = div a b; ret d } \
    => func { b0(): v0 = const -9223372036854775808; v1 = const -1; v2 = div v0 v1; ret v2 }
both edges of a branch to one block -- U blocks=2 constants=2 others=1 func { b0(): c = const 1; d = const 2; cbr c b1(c) b1(d); b1(p): ret p } \
    => func { b0(): v0 = const 1; v1 = const 2; cbr v0 b1(v0) b1(v1); b1(v2): ret v2 }
a region that names a constant -- C blocks=2 constants=2 others=0 func { b0(): a = const 2; scope a { b0(p): print p; ret }; ret a } \
    => func { b0(): v0 = const 2; scope v0 { b0(v1): v2 = const 2; print v2; ret }; ret v0 }
a region that names fewer operands than it takes -- C blocks=2 constants=2 others=1 func { b0(): a = const 2; scope a { b0(p, q): print q; ret p }; ret } \
    => func { b0(): v0 = const 2; scope v0 { b0(v1, v2): v3 = const 2; print v2; ret v3 }; ret }
a region that names an argument of a loop -- U blocks=4 constants=2 others=4 func { b0(): z = const 0; br b1(z); b1(i): scope i { b0(p): print p; ret }; o = const 1; n = add i o; r = read; cbr r b1(n) b2(); b2(): ret } \
    => func { b0(): v0 = const 0; br b1(v0); b1(v1): scope v1 { b0(v2): print v2; ret }; v3 = const 1; v4 = add v1 v3; v5 = read; cbr v5 b1(v4) b2(); \
        b2(): ret }
a region whose entry is also a branch's target -- U blocks=3 constants=2 others=2 func { b0(): a = const 2; scope a { b0(p): r = read; k = const 3; cbr r b0(k) b1(); b1(): ret }; ret } \
    => func { b0(): v0 = const 2; scope v0 { b0(v1): v2 = read; v3 = const 3; cbr v2 b0(v3) b1(); b1(): ret }; ret }
a region whose entry gets the same constant from a branch -- C blocks=3 constants=3 others=1 func { b0(): a = const 2; scope a { b0(p): r = read; k = const 2; cbr r b0(k) b1(); b1(): ret }; ret } \
    => func { b0(): v0 = const 2; scope v0 { b0(v1): v2 = const 2; v3 = read; v4 = const 2; cbr v3 b0(v4) b1(); b1(): ret }; ret }
a region that names more operands than it takes -- C blocks=2 constants=5 others=0 func { b0(): a = const 2; b = const 3; scope a b a { b0(p, q): c = add p q; print c; ret }; ret } \
    => func { b0(): v0 = const 2; v1 = const 3; scope v0 v1 v0 { b0(v2, v3): v4 = const 3; v5 = const 2; v6 = const 5; v7 = add v5 v4; print v6; ret \
        }; ret }
regions three deep that hand on a constant -- C blocks=4 constants=4 others=0 func { b0(): a = const 7; scope a { b0(p): scope p { b0(q): scope q { b0(r): print r; ret }; ret }; ret }; ret } \
    => func { b0(): v0 = const 7; scope v0 { b0(v1): v2 = const 7; scope v2 { b0(v3): v4 = const 7; scope v4 { b0(v5): v6 = const 7; print v6; ret }; \
        ret }; ret }; ret }
regions that hand on their arguments the other way round -- C blocks=3 constants=3 others=4 func { b0(x): a = const 7; scope x a { b0(p, q): scope q p { b0(r, s): t = mul r s; print t; ret }; ret }; ret } \
    => func { b0(v0): v1 = const 7; scope v0 v1 { b0(v2, v3): v4 = const 7; scope v4 v2 { b0(v5, v6): v7 = const 7; v8 = mul v7 v6; print v8; ret }; \
        ret }; ret }
a region that names what two edges forward -- U blocks=3 constants=2 others=3 func { b0(): c = const 1; x = const 5; y = read; cbr c b1(x) b1(y); b1(p): scope p { b0(q): print q; ret }; ret } \
    => func { b0(): v0 = const 1; v1 = const 5; v2 = read; cbr v0 b1(v1) b1(v2); b1(v3): scope v3 { b0(v4): print v4; ret }; ret }
a region that names what the one feasible edge forwards -- C blocks=4 constants=6 others=0 func { b0(): c = const 1; x = const 5; y = const 6; cbr c b1(x) b2(y); b1(p): scope p { b0(q): br b1(q); b1(r): print r; ret }; ret; b2(z): \
    scope z { b0(w): print w; ret }; ret } \
    => func { b0(): v0 = const 1; v1 = const 5; v2 = const 6; cbr v0 b1(v1) b2(v2); b1(v3): v4 = const 5; scope v4 { b0(v5): v6 = const 5; br b1(v6); \
        b1(v7): v8 = const 5; print v8; ret }; ret; b2(v9): scope v9 { b0(v10): print v10; ret }; ret }
regions that name nothing -- U blocks=3 constants=1 others=2 func { b0(): a = const 2; box { b0(p): print p; ret }; scope { b0(q): print q; ret }; ret } \
    => func { b0(): v0 = const 2; box { b0(v1): print v1; ret }; scope { b0(v2): print v2; ret }; ret }
a known condition, and an unreached block that forwards -- C blocks=3 constants=5 others=0 func { b0(): c = const 1; x = const 5; y = const 6; cbr c b1(x) b2(y); b1(p): br b2(p); b2(q): ret q; b3(): br b2(y) } \
    => func { b0(): v0 = const 1; v1 = const 5; v2 = const 6; cbr v0 b1(v1) b2(v2); b1(v3): v4 = const 5; br b2(v4); b2(v5): v6 = const 5; ret v6; \
        b3(): br b2(v2) }
a sum in a region of a constant outside -- C blocks=2 constants=2 others=0 func { b0(): a = const 2; scope { b0(): b = add a a; print b; ret }; ret } \
    => func { b0(): v0 = const 2; scope { b0(): v1 = const 4; v2 = add v0 v0; print v1; ret }; ret }
a function in a module -- C blocks=2 constants=2 others=0 mod { b0(): func { b0(): a = const 1; b = add a a; ret b } } => mod { b0(): func { b0(): v0 = const 1; v1 = const 2; v2 = add v0 v0; ret v1 } }
a product with 0 where a branch turns -- C blocks=4 constants=4 others=1 func { b0(): z = const 0; br b1(z); b1(p): cbr p b3() b2(); b2(): o = const 1; br b1(o); b3(): k = const 0; m = mul p k; ret m } \
    => func { b0(): v0 = const 0; br b1(v0); b1(v1): cbr v1 b3() b2(); b2(): v2 = const 1; br b1(v2); \
        b3(): v3 = const 0; v4 = const 0; v5 = mul v1 v3; ret v4 }
a product with 0 on the left -- C blocks=1 constants=2 others=1 func { b0(x): c = const 0; m = mul c x; ret m } => func { b0(v0): v1 = const 0; v2 = const 0; v3 = mul v1 v0; ret v2 }
a product with 0 on the right -- C blocks=1 constants=2 others=1 func { b0(x): z = const 0; m = mul x z; ret m } => func { b0(v0): v1 = const 0; v2 = const 0; v3 = mul v0 v1; ret v2 }
a quotient is cut toward 0 -- C blocks=1 constants=3 others=0 func { b0(): a = const 7; b = const -2; d = div a b; ret d } => func { b0(): v0 = const 7; v1 = const -2; v2 = const -3; v3 = div v0 v1; ret v2 }
a division by 0 -- U blocks=1 constants=2 others=1 func { b0(): a = const 1; z = const 0; d = div a z; ret a } => func { b0(): v0 = const 1; v1 = const 0; v2 = div v0 v1; ret v0 }
an empty function -- U blocks=1 constants=0 others=0 func { b0(): ret } => func { b0(): ret }
an argument and a read -- U blocks=1 constants=0 others=2 func { b0(x): r = read; ret r } => func { b0(v0): v1 = read; ret v1 }";

pub static DEFERRED: &str = "\
sums of a loop, lowered one after the other -- U blocks=5 constants=2 others=19 func { b0(): z = const 0; o = const 1; br b1(z); b1(i): a = add i o; b = add a o; c = add b o; d = add c o; e = add d o; f = add e o; \
    g = add f o; h = add g o; r = read; cbr r b1(h) b2(); b2(): q = read; cbr q b3(a, b, c, d, e, f, g, h) b4(); \
    b3(j, k, l, m, n, p, s, t): ret t; b4(): ret } \
    => func { b0(): v0 = const 0; v1 = const 1; br b1(v0); b1(v2): v3 = add v2 v1; v4 = add v3 v1; v5 = add v4 v1; v6 = add v5 v1; v7 = add v6 v1; \
        v8 = add v7 v1; v9 = add v8 v1; v10 = add v9 v1; v11 = read; cbr v11 b1(v10) b2(); \
        b2(): v12 = read; cbr v12 b3(v3, v4, v5, v6, v7, v8, v9, v10) b4(); b3(v13, v14, v15, v16, v17, v18, v19, v20): ret v20; b4(): ret }
a branch whose condition alone is lowered -- C blocks=4 constants=4 others=9 func { b0(): z = const 0; o = const 1; br b1(z); b1(p): cbr p b3(p, p, p, p, p, p, p, p) b2(); b2(): br b1(o); \
    b3(a, b, c, d, e, f, g, h): k = const 5; m = mul k k; ret m } \
    => func { b0(): v0 = const 0; v1 = const 1; br b1(v0); b1(v2): cbr v2 b3(v2, v2, v2, v2, v2, v2, v2, v2) b2(); b2(): br b1(v1); \
        b3(v3, v4, v5, v6, v7, v8, v9, v10): v11 = const 5; v12 = const 25; v13 = mul v11 v11; ret v12 }
a branch whose condition is lowered after what it forwards -- U blocks=4 constants=2 others=17 func { b0(): z = const 0; o = const 1; br b1(z); b1(p): a = add p o; b = add a o; c = add b o; d = add c o; e = add d o; f = add e o; \
    g = add f o; h = add g o; cbr p b3(a, b, c, d, e, f, g, h) b2(); b2(): br b1(o); b3(i, j, k, l, m, n, q, r): ret r } \
    => func { b0(): v0 = const 0; v1 = const 1; br b1(v0); b1(v2): v3 = add v2 v1; v4 = add v3 v1; v5 = add v4 v1; v6 = add v5 v1; v7 = add v6 v1; \
        v8 = add v7 v1; v9 = add v8 v1; v10 = add v9 v1; cbr v2 b3(v3, v4, v5, v6, v7, v8, v9, v10) b2(); b2(): br b1(v1); \
        b3(v11, v12, v13, v14, v15, v16, v17, v18): ret v18 }
two branches, of which the shorter is visited first -- U blocks=6 constants=2 others=25 func { b0(): z = const 0; o = const 1; br b1(z); b1(p): cbr p b2(p, p, p, p, p, p, p, p) b3(); \
    b2(a, b, c, d, e, f, g, h): ret h; b3(): cbr p b4(p, p, p, p, p, p, p, p, p, p, p, p, p, p, p, p) b5(); \
    b4(i, j, k, l, m, n, q, r, s, t, u, v, w, x, y, A): ret A; b5(): br b1(o) } \
    => func { b0(): v0 = const 0; v1 = const 1; br b1(v0); b1(v2): cbr v2 b2(v2, v2, v2, v2, v2, v2, v2, v2) b3(); \
        b2(v3, v4, v5, v6, v7, v8, v9, v10): ret v10; b3(): cbr v2 b4(v2, v2, v2, v2, v2, v2, v2, v2, v2, v2, v2, v2, v2, v2, v2, v2) b5(); \
        b4(v11, v12, v13, v14, v15, v16, v17, v18, v19, v20, v21, v22, v23, v24, v25, v26): ret v26; b5(): br b1(v1) }
a branch that lowers its own operands -- U blocks=3 constants=1 others=10 func { b0(): o = const 1; br b1(o, o, o, o, o, o, o, o); b1(a, b, c, d, e, f, g, h): r = read; q = read; \
    cbr q b1(r, a, b, c, d, e, f, g) b2(); b2(): ret } \
    => func { b0(): v0 = const 1; br b1(v0, v0, v0, v0, v0, v0, v0, v0); b1(v1, v2, v3, v4, v5, v6, v7, v8): v9 = read; v10 = read; \
        cbr v10 b1(v9, v1, v2, v3, v4, v5, v6, v7) b2(); b2(): ret }
two branches that lower each other's operands -- U blocks=4 constants=1 others=19 func { b0(): o = const 1; br b1(o, o, o, o, o, o, o, o); b1(a, b, c, d, e, f, g, h): r = read; q = read; \
    cbr q b2(r, a, b, c, d, e, f, g) b3(); b2(i, j, k, l, m, n, p, s): t = read; cbr t b1(i, j, k, l, m, n, p, s) b3(); b3(): ret } \
    => func { b0(): v0 = const 1; br b1(v0, v0, v0, v0, v0, v0, v0, v0); b1(v1, v2, v3, v4, v5, v6, v7, v8): v9 = read; v10 = read; \
        cbr v10 b2(v9, v1, v2, v3, v4, v5, v6, v7) b3(); \
        b2(v11, v12, v13, v14, v15, v16, v17, v18): v19 = read; cbr v19 b1(v11, v12, v13, v14, v15, v16, v17, v18) b3(); b3(): ret }
the last operand goes along an edge that isn't feasible -- C blocks=3 constants=2 others=10 func { b0(x): o = const 1; cbr x b1(o, o, o, o, o, o, o, o) b2(o); \
    b1(a, b, c, d, e, f, g, h): r = read; cbr o b1(r, a, b, c, d, e, f, g) b2(h); b2(u): ret u } \
    => func { b0(v0): v1 = const 1; cbr v0 b1(v1, v1, v1, v1, v1, v1, v1, v1) b2(v1); \
        b1(v2, v3, v4, v5, v6, v7, v8, v9): v10 = read; cbr v1 b1(v10, v2, v3, v4, v5, v6, v7, v8) b2(v9); b2(v11): v12 = const 1; ret v12 }
a scope whose three operands move on -- U blocks=4 constants=1 others=8 func { b0(): a = const 1; br b1(a, a, a); b1(x, y, z): g = read; h = read; scope x y z { b0(p, q, r): ret }; cbr h b1(g, p, q) b2(); b2(): ret } \
    => func { b0(): v0 = const 1; br b1(v0, v0, v0); b1(v1, v2, v3): v4 = read; v5 = read; scope v1 v2 v3 { b0(v6, v7, v8): ret }; \
        cbr v5 b1(v4, v6, v7) b2(); b2(): ret }
a scope whose ten operands move on -- C blocks=4 constants=5 others=18 func { b0(): a = const 1; br b1(a, a, a, a, a, a, a, a, a, a); b1(q, r, s, t, u, v, w, x, y, z): g = read; h = read; \
    scope q r s t u v w x y z { b0(Q, R, S, T, U, V, W, X, Y, Z): print X; print Z; ret }; \
    cbr h b1(g, Q, R, S, T, U, V, W, a, Y) b2(); b2(): ret } \
    => func { b0(): v0 = const 1; br b1(v0, v0, v0, v0, v0, v0, v0, v0, v0, v0); b1(v1, v2, v3, v4, v5, v6, v7, v8, v9, v10): \
        v11 = const 1; v12 = const 1; v13 = read; v14 = read; scope v1 v2 v3 v4 v5 v6 v7 v8 v12 v11 { \
        b0(v15, v16, v17, v18, v19, v20, v21, v22, v23, v24): v25 = const 1; v26 = const 1; print v22; print v25; ret }; \
        cbr v14 b1(v13, v15, v16, v17, v18, v19, v20, v21, v0, v26) b2(); b2(): ret }";

pub static HOSTILE: &str = "\
a use before its definition -- C func { b0(): c = add a b; a = const 1; b = const 2; ret c } => func { b0(): v0 = const 3; v1 = add v2 v3; v2 = const 1; v3 = const 2; ret v0 }
an operation of itself -- U func { b0(): a = add a a; ret a } => func { b0(): v0 = add v0 v0; ret v0 }
a product of itself with 0 -- C func { b0(): z = const 0; m = mul m z; ret m } => func { b0(): v0 = const 0; v1 = const 0; v2 = mul v1 v0; ret v1 }
an argument to which nothing is forwarded -- U func { b0(): br b1(); b1(p): ret p } => func { b0(): br b1(); b1(v0): ret v0 }
more values than the block takes -- C func { b0(): a = const 4; br b1(a, a); b1(p): ret p } => func { b0(): v0 = const 4; br b1(v0, v0); b1(v1): v2 = const 4; ret v2 }
an edge forwards what comes behind it -- U func { b0(): br b1(q); b1(p): q = read; ret p } => func { b0(): br b1(v1); b1(v0): v1 = read; ret v0 }
a block without a terminator -- U func { b0(): a = const 1 } => func { b0(): v0 = const 1 }
an unreached block -- U func { b0(): ret; b1(): a = const 1; b = add a a; ret b } => func { b0(): ret; b1(): v0 = const 1; v1 = add v0 v0; ret v1 }
a value of a region is used behind it -- C func { b0(): scope { b0(): a = const 2; b = add a a; ret }; print b; ret } \
    => func { b0(): scope { b0(): v0 = const 2; v1 = const 4; v2 = add v0 v0; ret }; print v1; ret }
a box whose block has no terminator -- C func { b0(): box { b0(x): a = const 2; b = mul a a } } => func { b0(): box { b0(v0): v1 = const 2; v2 = const 4; v3 = mul v1 v1 } }
a fork to a block of two arguments -- U func { b0(): a = const 1; fork a b1 b1; b1(p, q): s = add p q; ret s } => func { b0(): v0 = const 1; fork v0 b1 b1; b1(v1, v2): v3 = add v1 v2; ret v3 }
an empty module -- U mod { } => mod { }";

pub static ENTERED: &str = "\
two edges to a block of nine arguments, one twice to one of eight -- U blocks=5 constants=0 others=22 func { b0(): r = read; fork r b1 b2; b1(): s = read; fork s b2 b3; b2(p0, p1, p2, p3, p4, p5, p6, p7, p8): t = add p0 p8; ret t; \
    b3(): u = read; fork u b4 b4; b4(q0, q1, q2, q3, q4, q5, q6, q7): w = add q0 q7; ret w } \
    => func { b0(): v0 = read; fork v0 b1 b2; b1(): v1 = read; fork v1 b2 b3; b2(v2, v3, v4, v5, v6, v7, v8, v9, v10): v11 = add v2 v10; ret v11; \
        b3(): v12 = read; fork v12 b4 b4; b4(v13, v14, v15, v16, v17, v18, v19, v20): v21 = add v13 v20; ret v21 }
three edges to a block, visited after what a branch forwards -- U blocks=4 constants=1 others=13 func { b0(): k = const 4; r = read; cbr r b1(k, k, k, k, k, k, k, k, k) b2(); b1(p0, p1, p2, p3, p4, p5, p6, p7, p8): q = add p0 p8; ret q; \
    b2(): s = read; fork s b1 b3; b3(): u = read; fork u b1 b1 } \
    => func { b0(): v0 = const 4; v1 = read; cbr v1 b1(v0, v0, v0, v0, v0, v0, v0, v0, v0) b2(); b1(v2, v3, v4, v5, v6, v7, v8, v9, v10): v11 = add v2 v10; ret v11; \
        b2(): v12 = read; fork v12 b1 b3; b3(): v13 = read; fork v13 b1 b1 }
three edges to a block, visited before what a branch forwards -- U blocks=4 constants=1 others=13 func { b0(): k = const 4; r = read; cbr r b2() b1(k, k, k, k, k, k, k, k, k); b1(p0, p1, p2, p3, p4, p5, p6, p7, p8): q = add p0 p8; ret q; \
    b2(): s = read; fork s b1 b3; b3(): u = read; fork u b1 b1 } \
    => func { b0(): v0 = const 4; v1 = read; cbr v1 b2() b1(v0, v0, v0, v0, v0, v0, v0, v0, v0); b1(v2, v3, v4, v5, v6, v7, v8, v9, v10): v11 = add v2 v10; ret v11; \
        b2(): v12 = read; fork v12 b1 b3; b3(): v13 = read; fork v13 b1 b1 }
an edge from a block to itself -- U blocks=3 constants=1 others=11 func { b0(): k = const 4; br b1(k, k, k, k, k, k, k, k, k); b1(p0, p1, p2, p3, p4, p5, p6, p7, p8): q = add p0 p8; s = read; fork s b1 b2; b2(): ret q } \
    => func { b0(): v0 = const 4; br b1(v0, v0, v0, v0, v0, v0, v0, v0, v0); b1(v1, v2, v3, v4, v5, v6, v7, v8, v9): v10 = add v1 v9; v11 = read; fork v11 b1 b2; b2(): ret v10 }
constants that a branch forwards later -- C blocks=5 constants=11 others=11 func { b0(): k = const 4; r = read; fork r b1 b3; b1(p0, p1, p2, p3, p4, p5, p6, p7, p8): br b2(k, k, k, k, k, k, k, k, k); \
    b2(q0, q1, q2, q3, q4, q5, q6, q7, q8): t = add q0 q8; ret t; b3(): s = read; fork s b1 b4; b4(): br b1(k, k, k, k, k, k, k, k, k) } \
    => func { b0(): v0 = const 4; v1 = read; fork v1 b1 b3; b1(v2, v3, v4, v5, v6, v7, v8, v9, v10): br b2(v0, v0, v0, v0, v0, v0, v0, v0, v0); \
        b2(v11, v12, v13, v14, v15, v16, v17, v18, v19): v20 = const 4; v21 = const 4; v22 = const 4; v23 = const 4; \
        v24 = const 4; v25 = const 4; v26 = const 4; v27 = const 4; v28 = const 4; v29 = const 8; \
        v30 = add v28 v20; ret v29; b3(): v31 = read; fork v31 b1 b4; b4(): br b1(v0, v0, v0, v0, v0, v0, v0, v0, v0) }";
