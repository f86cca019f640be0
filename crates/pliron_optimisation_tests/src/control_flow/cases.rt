//! Texts, and what the simplification of control flow makes of them.
//!
//! A line has a name; `C` before a text that changes, `U` before one that does not, and `R` before one where the
//! call refuses, since a value of an unreachable block is used outside the unreachable blocks; in `ROWS` and
//! `ORDERS` the name of the call; then the text before and after. The others are
//! texts made at random for `simplify_cfg`. `tools/expected` makes what is left of these and of the lines of
//! `ROWS` and `ORDERS` with calls on an operation: it folds what a constant decides, removes what the entry does
//! not reach, and merges pairs of blocks until there is none, the last successor first. Each line of `ROWS` and
//! `ORDERS` was worked through by hand too.
//!
//! In `ORDERS` the order shows: of two pairs that exclude each other one is merged, and of the regions before
//! the one that refuses the unreachable blocks are erased. In `HOSTILE` uses may be anywhere, and edges may
//! forward too few values or too many; the texts of `DEFINED` are well defined.

pub static ROWS: &str = "\
a ring behind the entry -- C simplify func { b0(): br b1(); b1(): br b2(); b2(): br b1() } => func { b0(): br b1(); b1(): br b1() }
a used value of an unreachable block -- R simplify func { b0(): ret v; b1(): v = const 1; br b1() } => func { b0(): ret v0; b1(): v0 = const 1; br b1() }
an empty module -- U simplify mod { } => mod { }
a known condition, with both edges to one block -- C simplify func { b0(): c = const 0; d = const 2; cbr c b1(c) b1(d); b1(p): ret p } => func { b0(): v0 = const 0; v1 = const 2; ret v1 }
what is forwarded is the argument itself -- U simplify func { b0(): br b1(p); b1(p): ret p } => func { b0(): br b1(v0); b1(v0): ret v0 }
fewer values than the block takes -- U simplify func { b0(): br b1(); b1(p): ret p } => func { b0(): br b1(); b1(v0): ret v0 }
a module's first block alone -- C simplify mod { b0(): func { b0(): br b1(); b1(): ret }; b1(): func { b0(): br b1(); b1(): ret } } \
    => mod { b0(): func { b0(): ret }; b1(): func { b0(): br b1(); b1(): ret } }
a known condition, left by removal -- U remove func { b0(): c = const 0; cbr c b1() b2(); b1(): ret; b2(): ret } => func { b0(): v0 = const 0; cbr v0 b1() b2(); b1(): ret; b2(): ret }
a known condition, left by merging -- U merge func { b0(): c = const 0; cbr c b1() b2(); b1(): ret; b2(): ret } => func { b0(): v0 = const 0; cbr v0 b1() b2(); b1(): ret; b2(): ret }
a known condition -- C simplify func { b0(): c = const 0; cbr c b1() b2(); b1(): ret; b2(): ret } => func { b0(): v0 = const 0; ret }
a ring that is reached -- U remove func { b0(): br b1(); b1(): br b2(); b2(): br b1() } => func { b0(): br b1(); b1(): br b2(); b2(): br b1() }
a ring that is reached, merged -- C merge func { b0(): br b1(); b1(): br b2(); b2(): br b1() } => func { b0(): br b1(); b1(): br b1() }
a loop of one block -- U simplify func { b0(): br b0() } => func { b0(): br b0() }
a condition that is no constant -- U simplify func { b0(): z = const 0; c = add z z; box { }; cbr c b1() b2(); b1(): ret; b2(): ret } \
    => func { b0(): v0 = const 0; v1 = add v0 v0; box { }; cbr v1 b1() b2(); b1(): ret; b2(): ret }
a ring of unreachable blocks -- C simplify func { b0(): ret; b1(): a = const 1; br b2(); b2(): print a; br b1() } => func { b0(): ret }
a use in a nested region -- R simplify func { b0(): br b2(); b1(): v = const 1; br b2(); b2(): scope { b0(): print v; ret }; ret } \
    => func { b0(): br b2(); b1(): v0 = const 1; br b2(); b2(): scope { b0(): print v0; ret }; ret }
a use behind a branch that folds -- R simplify func { b0(): c = const 0; cbr c b1() b2(); b1(): v = const 1; br b2(); b2(): print v; ret } \
    => func { b0(): v0 = const 0; br b2(); b1(): v1 = const 1; br b2(); b2(): print v1; ret }
a region without blocks -- U merge-region mod { } => mod { }
a block that leads to itself -- U merge-block func { b0(): br b0() } => func { b0(): br b0() }
one unreachable block -- C remove func { b0(): ret; b1(): ret } => func { b0(): ret }
all blocks are reached -- U remove func { b0(): br b1(); b1(): ret } => func { b0(): br b1(); b1(): ret }
an unreachable predecessor -- C remove func { b0(): br b2(); b1(): br b2(); b2(): ret } => func { b0(): br b1(); b1(): ret }
unreachable blocks that use one another -- C remove func { b0(): ret; b1(): a = add b b; br b2(); b2(): b = add a a; br b1() } => func { b0(): ret }
a used value of an unreachable block, in removal -- R remove func { b0(): ret v; b1(): v = const 1; br b1() } => func { b0(): ret v0; b1(): v0 = const 1; br b1() }
an empty module, in removal -- U remove mod { } => mod { }
a module's first block alone, in removal -- C remove mod { b0(): func { b0(): ret; b1(): ret }; b1(): func { b0(): ret; b1(): ret } } \
    => mod { b0(): func { b0(): ret }; b1(): func { b0(): ret; b1(): ret } }
what is forwarded is the argument itself, in merging -- U merge func { b0(): br b1(p); b1(p): ret p } => func { b0(): br b1(v0); b1(v0): ret v0 }
fewer values than the block takes, in merging -- U merge func { b0(): br b1(); b1(p): ret p } => func { b0(): br b1(); b1(v0): ret v0 }
an empty module, in merging -- U merge mod { } => mod { }
an argument becomes what is forwarded -- C merge func { b0(): x = const 1; br b1(x); b1(p): ret p } => func { b0(): v0 = const 1; ret v0 }
a chain of blocks -- C merge func { b0(): br b1(); b1(): br b2(); b2(): br b3(); b3(): ret } => func { b0(): ret }
a module's first block alone, in merging -- C merge mod { b0(): func { b0(): br b1(); b1(): ret }; b1(): func { b0(): br b1(); b1(): ret } } \
    => mod { b0(): func { b0(): ret }; b1(): func { b0(): br b1(); b1(): ret } }
a loop of one block, in merging -- U merge func { b0(): br b0() } => func { b0(): br b0() }
two arguments the other way round -- C merge func { b0(): a = const 1; b = const 2; br b1(b, a); b1(p, q): ret p q } => func { b0(): v0 = const 1; v1 = const 2; ret v1 v0 }
a diamond -- U merge func { b0(x): cbr x b1() b2(); b1(): br b3(); b2(): br b3(); b3(): ret } => func { b0(v0): cbr v0 b1() b2(); b1(): br b3(); b2(): br b3(); b3(): ret }
a loop behind the entry -- U simplify func { b0(): br b1(); b1(): br b1() } => func { b0(): br b1(); b1(): br b1() }
an unreachable loop -- C simplify func { b0(): ret; b1(): br b1() } => func { b0(): ret }
boxes without blocks, and with an empty one -- C simplify func { b0(): box { }; br b1(); b1(): box { b0(): }; ret } => func { b0(): box { }; box { b0(): }; ret }
more values than the block takes -- U simplify func { b0(): x = const 1; br b1(x, x); b1(p): ret p } => func { b0(): v0 = const 1; br b1(v0, v0); b1(v1): ret v1 }
one of two arguments is forwarded to itself -- U simplify func { b0(): x = const 1; br b1(x, q); b1(p, q): ret p } => func { b0(): v0 = const 1; br b1(v0, v2); b1(v1, v2): ret v1 }
arguments through a chain -- C simplify func { b0(): x = const 1; br b1(x); b1(p): br b2(p); b2(q): br b3(p, q); b3(r, s): ret r s } => func { b0(): v0 = const 1; ret v0 v0 }
a fork's edges -- U simplify func { b0(x): fork x b1 b1; b1(p): ret p } => func { b0(v0): fork v0 b1 b1; b1(v1): ret v1 }
two edges of a branch to one block -- U simplify func { b0(x): cbr x b1() b1(); b1(): ret } => func { b0(v0): cbr v0 b1() b1(); b1(): ret }
a block without operations -- C simplify func { b0(): br b1(); b1(): } => func { b0(): }
an entry without operations -- U simplify func { b0(): } => func { b0(): }
a condition that a merge makes known -- C simplify func { b0(): m = const 1; cbr m b1() b0(); b1(): br b2(m); b2(p): cbr p b1() b3(); b3(): ret } \
    => func { b0(): v0 = const 1; br b1(); b1(): cbr v0 b1() b2(); b2(): ret }
a region of a block that is merged -- C simplify func { b0(x): br b1(x); b1(p): scope p { b0(q): br b1(q); b1(r): print r; print p; ret }; print p; ret p } \
    => func { b0(v0): scope v0 { b0(v1): print v1; print v0; ret }; print v0; ret v0 }
an unreachable box whose inner value is used -- C simplify func { b0(): ret; b1(): box { b0(): k = const 4 }; print k; ret } => func { b0(): ret }
an inner value that is used outside its box -- R simplify func { b0(): box { b0(): ret; b1(): k = const 4; ret }; print k; ret } => func { b0(): box { b0(): ret; b1(): v0 = const 4; ret }; print v0; ret }
a branch in a box -- C simplify func { b0(): box { b0(): c = const 0; cbr c b1() b2(); b1(): ret; b2(): ret }; ret } => func { b0(): box { b0(): v0 = const 0; ret }; ret }
a module in a module -- C simplify mod { b0(): mod { b0(): func { b0(): br b1(); b1(): ret }; func { b0(): ret; b1(): ret } }; func { b0(x): br b1(x); b1(p): ret p } } \
    => mod { b0(): mod { b0(): func { b0(): ret }; func { b0(): ret } }; func { b0(v0): ret v0 } }
a known condition, folded -- C fold func { b0(): c = const 1; x = const 5; cbr c b1(x) b2(); b1(p): ret p; b2(): ret } \
    => func { b0(): v0 = const 1; v1 = const 5; br b1(v1); b1(v2): ret v2; b2(): ret }
a known condition in an unreachable block -- C fold func { b0(): ret; b1(): c = const 0; cbr c b1() b1() } => func { b0(): ret; b1(): v0 = const 0; br b1() }
a condition that is an argument -- U fold func { b0(x): cbr x b1() b1(); b1(): ret } => func { b0(v0): cbr v0 b1() b1(); b1(): ret }
a function in an unreachable block of a module -- C fold mod { b0(): ; b1(): func { b0(): c = const 0; cbr c b0() b1(); b1(): ret } } => mod { b0():; b1(): func { b0(): v0 = const 0; br b1(); b1(): ret } }
a region, and one nested in it -- C merge-region func { b0(): x = const 1; br b1(x); b1(p): scope { b0(): br b1(); b1(): ret }; ret p } \
    => func { b0(): v0 = const 1; scope { b0(): ret }; ret v0 }
the regions of a block -- C merge-block func { b0(): scope { b0(): br b1(); b1(): ret }; br b1(); b1(): scope { b0(): br b1(); b1(): ret }; ret } \
    => func { b0(): scope { b0(): ret }; br b1(); b1(): scope { b0(): br b1(); b1(): ret }; ret }
unreachable blocks that would be a pair -- U merge func { b0(): ret; b1(): br b2(); b2(): ret } => func { b0(): ret; b1(): br b2(); b2(): ret }
two predecessors, one of them unreachable -- U merge func { b0(): br b2(); b1(): br b2(); b2(): ret } => func { b0(): br b2(); b1(): br b2(); b2(): ret }
a branch whose way is known -- C simplify func { b0(): c = const 1; x = const 5; cbr c b1(x) b2(); b1(p): br b3(p); b2(): y = const 6; br b3(y); b3(q): ret q } \
    => func { b0(): v0 = const 1; v1 = const 5; ret v1 }
a condition that is an argument until blocks are merged -- C simplify func { b0(): a = const 1; br b1(a); b1(p): cbr p b2() b3(); b2(): ret p; b3(): ret } \
    => func { b0(): v0 = const 1; cbr v0 b1() b2(); b1(): ret v0; b2(): ret }
the region of an empty module -- U remove-region mod { } => mod { }
a block without regions -- U remove-block func { b0(): br b0() } => func { b0(): br b0() }
a region, and one nested in it, in removal -- C remove-region func { b0(): br b2(); b1(): ret; b2(): box { b0(): ret; b1(): ret }; ret } => func { b0(): br b1(); b1(): box { b0(): ret }; ret }
the regions of a block, in removal -- C remove-block func { b0(): box { b0(): ret; b1(): ret }; ret; b1(): box { b0(): ret; b1(): ret } } \
    => func { b0(): box { b0(): ret }; ret; b1(): box { b0(): ret; b1(): ret } }
a used value in a region of the block -- R remove-block func { b0(): box { b0(): print k; ret; b1(): k = const 1; ret }; ret } \
    => func { b0(): box { b0(): print v0; ret; b1(): v0 = const 1; ret }; ret }
a used value in the region -- R remove-region func { b0(): print k; ret; b1(): k = const 1; ret } => func { b0(): print v0; ret; b1(): v0 = const 1; ret }
one unreachable block of the region -- C remove-region func { b0(): ret; b1(): ret } => func { b0(): ret }
the region of a module -- C remove-region mod { b0(): func { b0(): ret; b1(): ret }; b1(): func { b0(): ret; b1(): ret } } \
    => mod { b0(): func { b0(): ret }; b1(): func { b0(): ret; b1(): ret } }
the regions of the first block alone -- C remove-block func { b0(): scope { b0(): ret; b1(): ret }; br b1(); b1(): scope { b0(): ret; b1(): ret }; ret; b2(): ret } \
    => func { b0(): scope { b0(): ret }; br b1(); b1(): scope { b0(): ret; b1(): ret }; ret; b2(): ret }
unreachable blocks beside the block -- U remove-block func { b0(): ret; b1(): ret } => func { b0(): ret; b1(): ret }";

pub static ORDERS: &str = "\
the last successor's pair comes first -- C merge func { b0(x): cbr x b1() b2(); b1(): br b3(q); b2(): br b4(p); b3(p): print p; ret; b4(q): print q; ret } \
    => func { b0(v0): cbr v0 b1() b2(); b1(): br b3(v1); b2(): print v1; ret; b3(v1): print v1; ret }
the last successor's pair comes first, with edges turned -- C merge func { b0(x): cbr x b2() b1(); b1(): br b3(q); b2(): br b4(p); b3(p): print p; ret; b4(q): print q; ret } \
    => func { b0(v0): cbr v0 b2() b1(); b1(): print v1; ret; b2(): br b3(v1); b3(v1): print v1; ret }
the first region's pair comes first -- C merge func { b0(): scope { b0(): br b1(q); b1(p): print p; ret }; scope { b0(): br b1(p); b1(q): print q; ret }; ret } \
    => func { b0(): scope { b0(): print v0; ret }; scope { b0(): br b1(v0); b1(v0): print v0; ret }; ret }
a region behind the last successor comes first -- C merge func { b0(x): cbr x b1() b2(); b1(): br b3(q); b2(): scope { b0(): br b1(p); b1(q): print q; ret }; ret; b3(p): print p; ret } \
    => func { b0(v0): cbr v0 b1() b2(); b1(): br b3(v1); b2(): scope { b0(): print v1; ret }; ret; b3(v1): print v1; ret }
a block's own pair comes before its regions' -- C merge func { b0(): scope { b0(): br b1(p); b1(q): print q; ret }; br b1(q); b1(p): print p; ret } \
    => func { b0(): scope { b0(): br b1(v0); b1(v0): print v0; ret }; print v0; ret }
a block's pair behind the last successor comes before a region -- C merge func { b0(x): cbr x b2() b1(); b1(): br b3(q); b2(): scope { b0(): br b1(p); b1(q): print q; ret }; ret; b3(p): print p; ret } \
    => func { b0(v0): cbr v0 b2() b1(); b1(): print v1; ret; b2(): scope { b0(): br b1(v1); b1(v1): print v1; ret }; ret }
what is behind the last successor is done when a region refuses -- R remove func { b0(x): cbr x b1() b2(); b1(): scope { b0(): print v; ret; b1(): v = const 1; ret }; ret; b2(): scope { b0(): ret; b1(): ret }; ret } \
    => func { b0(v0): cbr v0 b1() b2(); b1(): scope { b0(): print v1; ret; b1(): v1 = const 1; ret }; ret; b2(): scope { b0(): ret }; ret }
nothing is done where the first region refuses -- R remove func { b0(x): cbr x b2() b1(); b1(): scope { b0(): print v; ret; b1(): v = const 1; ret }; ret; b2(): scope { b0(): ret; b1(): ret }; ret } \
    => func { b0(v0): cbr v0 b2() b1(); b1(): scope { b0(): print v1; ret; b1(): v1 = const 1; ret }; ret; b2(): scope { b0(): ret; b1(): ret }; ret }
the first of two regions refuses -- R remove func { b0(): scope { b0(): print v; ret; b1(): v = const 1; ret }; scope { b0(): ret; b1(): ret }; ret } \
    => func { b0(): scope { b0(): print v0; ret; b1(): v0 = const 1; ret }; scope { b0(): ret; b1(): ret }; ret }
the second of two regions refuses -- R remove func { b0(): scope { b0(): ret; b1(): ret }; scope { b0(): print v; ret; b1(): v = const 1; ret }; ret } \
    => func { b0(): scope { b0(): ret }; scope { b0(): print v0; ret; b1(): v0 = const 1; ret }; ret }
nested regions come before the block around -- R remove func { b0(): scope { b0(): ret; b1(): ret }; br b2(); b1(): v = const 1; ret; b2(): print v; ret } \
    => func { b0(): scope { b0(): ret }; br b2(); b1(): v0 = const 1; ret; b2(): print v0; ret }
what is in an unreachable block goes with it -- C remove func { b0(): ret; b1(): v = const 1; box { b0(): ret; b1(): ret }; ret } => func { b0(): ret }";

pub static DEFINED: &str = "\
random, well defined, 1 -- U func { b0(): v0 = const 7; ret } => func { b0(): v0 = const 7; ret }
random, well defined, 2 -- C func { b0(): sink; ret; b1(v0): v1 = const 0; v2 = mul v1 v0; scope v1 { b0(): v3 = add v2 v2; ret }; cbr v1 b2(v0, v2) b3(v2, v2, v2); \
    b2(v4, v5): v6 = add v5 v4; print v5; br b1(v6); b3(v7, v8, v9): v10 = add v8 v7; fork v10 b2 b1 } \
    => func { b0(): sink; ret }
random, well defined, 3 -- C func { b0(v0): v1 = add v0 v0; v2 = add v0 v0; sink v1 v1; v3, v4 = pair; cbr v1 b2() b1(); b1(): v5, v6 = pair; v7 = const -1; br b2(); \
    b2(): scope v3 v2 { b0(v8): ret }; print v1; br b3(v0, v3); b3(v9, v10): v11, v12 = pair; ret v4 } \
    => func { b0(v0): v1 = add v0 v0; v2 = add v0 v0; sink v1 v1; v3, v4 = pair; cbr v1 b2() b1(); b1(): v5, v6 = pair; v7 = const -1; br b2(); \
        b2(): scope v3 v2 { b0(v8): ret }; print v1; v9, v10 = pair; ret v4 }
random, well defined, 4 -- C func { b0(): v0, v1 = pair; v2 = div v1 v0; br b1(v2, v1, v0); b1(v3, v4, v5): v6 = read; v7 = div v5 v5; ret v5 } \
    => func { b0(): v0, v1 = pair; v2 = div v1 v0; v3 = read; v4 = div v0 v0; ret v0 }
random, well defined, 5 -- C func { b0(v0): v1 = const -3; box { b0(v2): v3 = mul v2 v2; ret }; cbr v1 b2(v0) b1(v0); b1(v4): v5, v6 = pair; sink; v7 = read; br b1(v0); \
    b2(v8): v9 = const -9223372036854775808; print v9; v10 = div v8 v8; sink v9; ret v9 } \
    => func { b0(v0): v1 = const -3; box { b0(v2): v3 = mul v2 v2; ret }; v4 = const -9223372036854775808; print v4; v5 = div v0 v0; sink v4; ret v4 }
random, well defined, 6 -- C func { b0(v0, v1): box { b0(v2): print v2; v3 = add v2 v2; ret }; scope { b0(v4): cbr v4 b0(v0) b0(v4) }; v5 = add v1 v1; br b2(); \
    b1(v6): sink; cbr v5 b1(v6) b2(); b2(): scope { b0(): v7 = const 2; sink v0 v1 v1; v8 = const 0; ret }; v9 = const 0; ret v0 } \
    => func { b0(v0, v1): box { b0(v2): print v2; v3 = add v2 v2; ret }; scope { b0(v4): cbr v4 b0(v0) b0(v4) }; v5 = add v1 v1; scope { b0(): v6 = const 2; \
        sink v0 v1 v1; v7 = const 0; ret }; v8 = const 0; ret v0 }
random, well defined, 7 -- U func { b0(v0, v1): box { b0(): v2 = const 0; v3 = add v2 v0; ret }; v4 = add v1 v1; cbr v1 b0(v4, v4) b0(v4, v4) } \
    => func { b0(v0, v1): box { b0(): v2 = const 0; v3 = add v2 v0; ret }; v4 = add v1 v1; cbr v1 b0(v4, v4) b0(v4, v4) }
random, well defined, 8 -- C func { b0(): v0 = const 0; box { b0(v1): print v1; br b0(v0) }; sink; cbr v0 b1(v0, v0) b2(v0, v0); b1(v2, v3): v4, v5 = pair; br b2(v5, v5); \
    b2(v6, v7): print v6; ret } \
    => func { b0(): v0 = const 0; box { b0(v1): print v1; br b0(v0) }; sink; print v0; ret }
random, well defined, 9 -- C func { b0(): v0 = const 0; v1 = add v0 v0; v2 = add v0 v1; v3 = const -3; cbr v0 b1(v0, v0, v0) b1(v1, v1, v0); \
    b1(v4, v5, v6): scope v5 v3 { b0(v7, v8): box { b0(): v9 = const -1; v10 = mul v8 v3; ret }; v11 = read; br b1(); b1(): v12 = read; ret; \
    b2(v13): v14, v15 = pair; ret }; cbr v5 b1(v6, v3, v2) b1(v4, v1, v6) } \
    => func { b0(): v0 = const 0; v1 = add v0 v0; v2 = add v0 v1; v3 = const -3; br b1(v1, v1, v0); \
        b1(v4, v5, v6): scope v5 v3 { b0(v7, v8): box { b0(): v9 = const -1; v10 = mul v8 v3; ret }; v11 = read; v12 = read; ret }; \
        cbr v5 b1(v6, v3, v2) b1(v4, v1, v6) }
random, well defined, 10 -- C func { b0(): box { b0(): br b0() }; v0, v1 = pair; v2 = div v0 v1; br b2(); b1(): v3 = mul v2 v1; br b1(); b2(): v4, v5 = pair; ret v4 } \
    => func { b0(): box { b0(): br b0() }; v0, v1 = pair; v2 = div v0 v1; v3, v4 = pair; ret v3 }
random, well defined, 11 -- C func { b0(v0): box { b0(): v1 = mul v0 v0; print v1; v2 = div v1 v1; br b1(v2, v1); b1(v3, v4): print v4; sink v3; ret }; v5 = const 5; br b2(); \
    b1(v6, v7): print v7; v8 = div v7 v5; v9 = div v0 v5; cbr v6 b2() b2(); b2(): print v5; cbr v5 b2() b1(v5, v5) } \
    => func { b0(v0): box { b0(): v1 = mul v0 v0; print v1; v2 = div v1 v1; print v1; sink v2; ret }; v3 = const 5; br b1(); b1(): print v3; br b1() }
random, well defined, 12 -- C func { b0(v0): v1 = mul v0 v0; v2 = mul v0 v1; br b3(v0, v2); b1(v3): v4 = add v2 v3; v5 = add v3 v0; ret v5; \
    b2(v6, v7): v8 = div v6 v6; v9 = const 1; v10 = div v9 v8; fork v2 b1 b2; b3(v11, v12): v13 = add v12 v12; print v12; ret v2 } \
    => func { b0(v0): v1 = mul v0 v0; v2 = mul v0 v1; v3 = add v2 v2; print v2; ret v2 }
random, well defined, 13 -- U func { b0(v0, v1): v2, v3 = pair; print v1; sink v2 v0; ret v1 } => func { b0(v0, v1): v2, v3 = pair; print v1; sink v2 v0; ret v1 }
random, well defined, 14 -- C func { b0(v0, v1): v2 = div v1 v0; scope { b0(): v3 = read; v4 = const -9223372036854775808; cbr v4 b1() b1(); \
    b1(): v5 = mul v2 v4; ret }; cbr v0 b2(v2) b2(v0); b1(v6, v7): v8 = div v1 v7; cbr v7 b2(v6) b1(v6, v6); \
    b2(v9): v10 = const 7; v11 = read; scope v11 { b0(v12): v13 = div v2 v12; br b0(v11) }; ret v11 } \
    => func { b0(v0, v1): v2 = div v1 v0; scope { b0(): v3 = read; v4 = const -9223372036854775808; v5 = mul v2 v4; ret }; cbr v0 b1(v2) b1(v0); \
        b1(v6): v7 = const 7; v8 = read; scope v8 { b0(v9): v10 = div v2 v9; br b0(v8) }; ret v8 }
random, well defined, 15 -- C func { b0(): v0 = const 1; cbr v0 b1() b2(v0); b1(): v1, v2 = pair; v3 = div v2 v1; v4 = read; ret v2; \
    b2(v5): v6 = add v5 v5; v7 = add v5 v0; v8 = mul v5 v0; ret v6 } \
    => func { b0(): v0 = const 1; v1, v2 = pair; v3 = div v2 v1; v4 = read; ret v2 }
random, well defined, 16 -- C func { b0(v0, v1): v2 = const 0; v3 = const 1; v4 = add v3 v1; v5 = add v4 v3; br b2(v5, v3, v2); b1(): v6 = add v0 v3; br b2(v6, v6, v6); \
    b2(v7, v8, v9): print v1; ret v9 } \
    => func { b0(v0, v1): v2 = const 0; v3 = const 1; v4 = add v3 v1; v5 = add v4 v3; print v1; ret v2 }
random, well defined, 17 -- C func { b0(): v0 = const 2; v1 = add v0 v0; print v0; cbr v0 b3(v1) b3(v1); b1(v2, v3): sink; fork v3 b3 b3; \
    b2(v4): print v4; v5 = const 9223372036854775807; cbr v5 b3(v4) b2(v5); b3(v6): v7 = const -3; v8 = const 2; sink; ret v7 } \
    => func { b0(): v0 = const 2; v1 = add v0 v0; print v0; v2 = const -3; v3 = const 2; sink; ret v2 }
random, well defined, 18 -- C func { b0(v0): v1 = add v0 v0; v2, v3 = pair; v4 = const 0; cbr v4 b3(v3) b3(v2); \
    b1(v5): scope { b0(v6): print v6; fork v6 b0 b0 }; v7 = div v1 v5; br b1(v7); b2(v8): v9 = const -3; v10 = add v4 v9; cbr v10 b1(v8) b3(v9); \
    b3(v11): sink; v12 = mul v11 v11; ret v12 } \
    => func { b0(v0): v1 = add v0 v0; v2, v3 = pair; v4 = const 0; sink; v5 = mul v2 v2; ret v5 }
random, well defined, 19 -- U func { b0(v0, v1): v2 = add v1 v1; ret v2 } => func { b0(v0, v1): v2 = add v1 v1; ret v2 }
random, well defined, 20 -- C func { b0(): scope { b0(): sink; ret; b1(v0, v1): v2 = const 1; cbr v2 b1(v0, v1) b1(v1, v2) }; box { b0(v3): print v3; ret }; ret; \
    b1(v4, v5): v6 = div v4 v4; print v5; v7 = const 5; cbr v5 b1(v7, v5) b1(v6, v7); \
    b2(v8): v9, v10 = pair; box { b0(v11): v12 = mul v8 v11; ret }; cbr v10 b1(v8, v10) b1(v9, v8) } \
    => func { b0(): scope { b0(): sink; ret }; box { b0(v0): print v0; ret }; ret }
random, well defined, 21 -- C func { b0(v0, v1): v2 = const 0; br b1(v0, v1); b1(v3, v4): v5 = mul v1 v4; v6 = const -3; v7 = mul v6 v6; ret v7 } \
    => func { b0(v0, v1): v2 = const 0; v3 = mul v1 v1; v4 = const -3; v5 = mul v4 v4; ret v5 }
random, well defined, 22 -- C func { b0(v0): sink; v1 = div v0 v0; v2 = read; br b1(); b1(): v3 = const 1; v4 = const 0; cbr v3 b2() b1(); \
    b2(): v5 = const 7; box { b0(): ret }; ret v2 } \
    => func { b0(v0): sink; v1 = div v0 v0; v2 = read; v3 = const 1; v4 = const 0; v5 = const 7; box { b0(): ret }; ret v2 }
random, well defined, 23 -- C func { b0(): box { b0(): sink; v0 = const 5; box { b0(v1): cbr v1 b0(v1) b0(v1) }; cbr v0 b1() b1(); b1(): ret }; box { b0(): v2 = const 0; ret }; ret; \
    b1(v3): sink v3 v3; v4 = add v3 v3; cbr v3 b1(v4) b1(v3); b2(v5, v6): v7 = add v6 v6; ret v5 } \
    => func { b0(): box { b0(): sink; v0 = const 5; box { b0(v1): cbr v1 b0(v1) b0(v1) }; ret }; box { b0(): v2 = const 0; ret }; ret }
random, well defined, 24 -- C func { b0(v0): v1 = add v0 v0; v2 = mul v0 v0; box { b0(): v3 = const -3; ret }; sink; br b2(v0, v2, v2); \
    b1(): scope v2 v1 { b0(v4): v5 = read; v6 = read; ret }; v7 = add v2 v1; cbr v2 b1() b2(v7, v7, v7); b2(v8, v9, v10): print v10; print v8; ret } \
    => func { b0(v0): v1 = add v0 v0; v2 = mul v0 v0; box { b0(): v3 = const -3; ret }; sink; print v2; print v0; ret }
random, well defined, 25 -- U func { b0(v0, v1): v2 = mul v0 v1; ret v1 } => func { b0(v0, v1): v2 = mul v0 v1; ret v1 }
random, well defined, 26 -- C func { b0(): v0 = const 5; box { b0(): v1, v2 = pair; cbr v2 b1() b1(); b1(): v3 = mul v0 v2; v4 = read; ret }; cbr v0 b2(v0) b1(v0, v0, v0); \
    b1(v5, v6, v7): v8 = const 7; ret; b2(v9): box { b0(v10): v11 = div v10 v10; ret }; v12 = div v9 v9; v13 = read; print v13; ret v12 } \
    => func { b0(): v0 = const 5; box { b0(): v1, v2 = pair; cbr v2 b1() b1(); \
        b1(): v3 = mul v0 v2; v4 = read; ret }; box { b0(v5): v6 = div v5 v5; ret }; v7 = div v0 v0; v8 = read; print v8; ret v7 }
random, well defined, 27 -- C func { b0(v0, v1): v2 = read; br b1(v0, v1); b1(v3, v4): v5 = mul v4 v1; v6 = add v5 v3; v7 = add v5 v6; box { b0(): print v2; v8 = const 0; br b1(); \
    b1(): sink; v9 = add v8 v8; v10 = div v9 v9; br b1() }; ret v3 } \
    => func { b0(v0, v1): v2 = read; v3 = mul v1 v1; v4 = add v3 v0; v5 = add v3 v4; box { b0(): print v2; v6 = const 0; br b1(); \
        b1(): sink; v7 = add v6 v6; v8 = div v7 v7; br b1() }; ret v0 }
random, well defined, 28 -- C func { b0(): sink; sink; v0 = const 0; cbr v0 b1(v0) b1(v0); b1(v1): print v1; v2 = add v1 v1; sink; ret } \
    => func { b0(): sink; sink; v0 = const 0; print v0; v1 = add v0 v0; sink; ret }
random, well defined, 29 -- C func { b0(): sink; v0 = const 1; v1 = add v0 v0; v2 = add v0 v0; br b2(v2, v0); \
    b1(v3): v4 = div v3 v3; box { b0(v5): v6, v7 = pair; v8 = const 0; print v7; cbr v8 b0(v8) b0(v8) }; sink v4; cbr v4 b2(v4, v3) b2(v2, v4); \
    b2(v9, v10): v11 = const 5; cbr v11 b3() b2(v10, v9); b3(): v12 = const 7; ret } \
    => func { b0(): sink; v0 = const 1; v1 = add v0 v0; v2 = add v0 v0; v3 = const 5; v4 = const 7; ret }
random, well defined, 30 -- C func { b0(v0, v1): v2 = add v1 v0; br b3(v0, v2); b1(v3, v4): v5 = const 1; v6 = mul v4 v5; cbr v6 b2(v4) b3(v5, v4); \
    b2(v7): scope v7 { b0(): v8, v9 = pair; print v8; cbr v1 b1() b1(); b1(): v10 = read; ret }; v11, v12 = pair; v13 = mul v12 v7; v14 = const 1; \
    br b3(v14, v2); b3(v15, v16): v17 = const 2; v18 = div v2 v15; ret } \
    => func { b0(v0, v1): v2 = add v1 v0; v3 = const 2; v4 = div v2 v0; ret }
random, well defined, 31 -- U func { b0(): v0 = const 0; br b2(v0, v0); b1(): box { b0(): v1 = const 0; v2 = div v1 v1; ret }; v3, v4 = pair; v5 = read; v6 = read; \
    cbr v3 b1() b2(v5, v6); b2(v7, v8): scope { b0(): v9 = mul v8 v8; cbr v7 b1() b1(); b1(): v10 = const 0; ret }; fork v8 b2 b1 } \
    => func { b0(): v0 = const 0; br b2(v0, v0); b1(): box { b0(): v1 = const 0; v2 = div v1 v1; ret }; v3, v4 = pair; v5 = read; v6 = read; \
        cbr v3 b1() b2(v5, v6); b2(v7, v8): scope { b0(): v9 = mul v8 v8; cbr v7 b1() b1(); b1(): v10 = const 0; ret }; fork v8 b2 b1 }
random, well defined, 32 -- C func { b0(v0): v1 = const 2; v2 = add v0 v0; cbr v1 b2() b2(); b1(): v3 = const 7; v4 = add v0 v3; sink v4; br b2(); \
    b2(): v5 = mul v0 v2; box { b0(): sink v1; cbr v5 b1() b1(); b1(): box { b0(): v6 = const 0; ret }; print v5; ret }; ret v5 } \
    => func { b0(v0): v1 = const 2; v2 = add v0 v0; v3 = mul v0 v2; box { b0(): sink v1; cbr v3 b1() b1(); \
        b1(): box { b0(): v4 = const 0; ret }; print v3; ret }; ret v3 }
random, well defined, 33 -- C func { b0(): v0 = const 0; print v0; cbr v0 b1(v0, v0) b2(v0, v0); b1(v1, v2): v3 = add v2 v2; v4 = const -1; br b1(v4, v3); \
    b2(v5, v6): v7 = mul v5 v5; ret } \
    => func { b0(): v0 = const 0; print v0; v1 = mul v0 v0; ret }
random, well defined, 34 -- C func { b0(v0): v1 = add v0 v0; v2 = read; v3 = const 2; v4 = const -3; cbr v1 b1(v1, v3) b1(v3, v0); \
    b1(v5, v6): v7 = const 1; v8 = mul v3 v7; v9 = add v5 v6; br b2(v5); b2(v10): print v10; sink; v11, v12 = pair; ret } \
    => func { b0(v0): v1 = add v0 v0; v2 = read; v3 = const 2; v4 = const -3; cbr v1 b1(v1, v3) b1(v3, v0); \
        b1(v5, v6): v7 = const 1; v8 = mul v3 v7; v9 = add v5 v6; print v5; sink; v10, v11 = pair; ret }
random, well defined, 35 -- C func { b0(): sink; box { b0(): box { b0(): ret; b1(v0, v1): v2 = const 0; br b1(v2, v2) }; ret }; br b2(); \
    b1(v3, v4): v5, v6 = pair; v7 = add v6 v4; v8 = const 0; cbr v8 b1(v4, v6) b1(v6, v4); b2(): v9 = read; br b1(v9, v9) } \
    => func { b0(): sink; box { b0(): box { b0(): ret }; ret }; v0 = read; br b1(v0, v0); \
        b1(v1, v2): v3, v4 = pair; v5 = add v4 v2; v6 = const 0; br b1(v4, v2) }
random, well defined, 36 -- C func { b0(v0, v1): print v0; v2 = const 0; cbr v2 b1(v0, v1) b3(); b1(v3, v4): sink v4; cbr v3 b1(v4, v0) b1(v4, v0); \
    b2(v5, v6, v7): v8 = div v6 v5; cbr v5 b3() b3(); b3(): print v0; v9 = add v1 v1; ret v9 } \
    => func { b0(v0, v1): print v0; v2 = const 0; print v0; v3 = add v1 v1; ret v3 }
random, well defined, 37 -- U func { b0(v0): print v0; br b1(v0, v0); b1(v1, v2): v3 = const 0; print v3; br b1(v1, v2) } \
    => func { b0(v0): print v0; br b1(v0, v0); b1(v1, v2): v3 = const 0; print v3; br b1(v1, v2) }
random, well defined, 38 -- C func { b0(v0, v1): print v1; v2 = add v1 v0; v3 = const 7; cbr v3 b1() b2(); b1(): v4, v5 = pair; sink; print v4; cbr v5 b1() b1(); \
    b2(): v6 = add v1 v0; ret v6 } \
    => func { b0(v0, v1): print v1; v2 = add v1 v0; v3 = const 7; br b1(); b1(): v4, v5 = pair; sink; print v4; cbr v5 b1() b1() }
random, well defined, 39 -- C func { b0(v0): v1 = div v0 v0; br b1(v0); b1(v2): v3 = add v1 v2; box { b0(v4): v5 = add v4 v4; sink v4 v2; v6 = read; br b1(); \
    b1(): fork v4 b1 b1 }; ret } \
    => func { b0(v0): v1 = div v0 v0; v2 = add v1 v0; box { b0(v3): v4 = add v3 v3; sink v3 v0; v5 = read; br b1(); b1(): fork v3 b1 b1 }; ret }
random, well defined, 40 -- C func { b0(v0, v1): v2 = read; br b1(v2); b1(v3): scope v3 { b0(v4): v5 = add v3 v4; ret }; ret v3 } \
    => func { b0(v0, v1): v2 = read; scope v2 { b0(v3): v4 = add v2 v3; ret }; ret v2 }
random, well defined, 41 -- C func { b0(): v0 = const 0; print v0; sink v0; cbr v0 b2(v0) b2(v0); b1(v1): sink v1 v1 v0; br b1(v1); \
    b2(v2): v3 = add v2 v2; v4 = div v2 v3; v5, v6 = pair; ret } \
    => func { b0(): v0 = const 0; print v0; sink v0; v1 = add v0 v0; v2 = div v0 v1; v3, v4 = pair; ret }
random, well defined, 42 -- C func { b0(v0, v1): scope { b0(): v2 = mul v0 v1; br b2(); b1(v3, v4): box { b0(): sink; ret }; v5 = add v1 v1; cbr v4 b1(v5, v5) b1(v0, v3); \
    b2(): ret }; print v1; fork v0 b1 b1; b1(v6): v7, v8 = pair; v9 = const 7; cbr v7 b1(v6) b1(v8) } \
    => func { b0(v0, v1): scope { b0(): v2 = mul v0 v1; ret }; print v1; fork v0 b1 b1; b1(v3): v4, v5 = pair; v6 = const 7; cbr v4 b1(v3) b1(v5) }
random, well defined, 43 -- U func { b0(v0): v1 = add v0 v0; sink v1 v1 v0; cbr v0 b1() b2(v1, v1, v0); b1(): v2 = mul v0 v1; cbr v1 b2(v2, v2, v2) b2(v2, v0, v2); \
    b2(v3, v4, v5): v6 = add v4 v1; ret } \
    => func { b0(v0): v1 = add v0 v0; sink v1 v1 v0; cbr v0 b1() b2(v1, v1, v0); b1(): v2 = mul v0 v1; cbr v1 b2(v2, v2, v2) b2(v2, v0, v2); \
        b2(v3, v4, v5): v6 = add v4 v1; ret }
random, well defined, 44 -- C func { b0(): box { b0(): ret; b1(v0): scope v0 v0 { b0(v1): ret }; ret }; ret; \
    b1(v2, v3): scope v2 v3 { b0(v4, v5): scope { b0(): sink v3 v4; v6 = const 0; cbr v6 b1() b1(); b1(): v7 = add v6 v2; print v7; ret }; ret }; br b2(v3); \
    b2(v8): print v8; v9 = read; v10 = mul v9 v8; br b2(v10) } \
    => func { b0(): box { b0(): ret }; ret }
random, well defined, 45 -- C func { b0(): br b2(); b1(v0): v1 = const 0; v2, v3 = pair; ret v2; b2(): v4 = const 0; sink v4 v4; print v4; sink; ret v4; \
    b3(v5): v6 = const -3; v7, v8 = pair; sink v8; v9 = add v6 v8; ret v7 } \
    => func { b0(): v0 = const 0; sink v0 v0; print v0; sink; ret v0 }
random, well defined, 46 -- C func { b0(): v0 = const 0; cbr v0 b1(v0) b1(v0); b1(v1): v2 = div v1 v1; sink v2 v2 v2; ret } \
    => func { b0(): v0 = const 0; v1 = div v0 v0; sink v1 v1 v1; ret }
random, well defined, 47 -- C func { b0(v0, v1): print v1; v2 = add v0 v1; cbr v1 b1(v1) b1(v2); b1(v3): scope v3 { b0(v4): br b1(v4, v4); \
    b1(v5, v6): v7, v8 = pair; box { b0(): v9 = add v2 v4; v10 = const 9223372036854775807; cbr v10 b0() b0() }; ret }; ret v3; \
    b2(): v11 = const 0; v12 = const 1; sink v11 v12; ret v11 } \
    => func { b0(v0, v1): print v1; v2 = add v0 v1; cbr v1 b1(v1) b1(v2); \
        b1(v3): scope v3 { b0(v4): v5, v6 = pair; box { b0(): v7 = add v2 v4; v8 = const 9223372036854775807; br b0() }; ret }; ret v3 }
random, well defined, 48 -- C func { b0(v0): v1 = mul v0 v0; v2 = const 2; box { b0(): v3 = const 9223372036854775807; print v2; ret }; sink v2 v2; br b2(v0); \
    b1(v4): sink v0 v4 v4; ret v2; b2(v5): v6 = div v1 v5; v7 = const -3; v8 = add v7 v7; v9 = add v6 v0; ret v9 } \
    => func { b0(v0): v1 = mul v0 v0; v2 = const 2; box { b0(): v3 = const 9223372036854775807; print v2; ret }; sink v2 v2; v4 = div v1 v0; v5 = const -3; \
        v6 = add v5 v5; v7 = add v4 v0; ret v7 }
random, well defined, 49 -- U func { b0(v0, v1): v2, v3 = pair; v4, v5 = pair; ret v1 } => func { b0(v0, v1): v2, v3 = pair; v4, v5 = pair; ret v1 }
random, well defined, 50 -- C func { b0(v0): v1 = mul v0 v0; v2 = const 1; print v2; cbr v2 b1(v0, v2, v1) b2(v0, v2); b1(v3, v4, v5): v6 = const 2; v7 = const 1; br b1(v5, v5, v5); \
    b2(v8, v9): scope { b0(): br b0() }; ret v9 } \
    => func { b0(v0): v1 = mul v0 v0; v2 = const 1; print v2; br b1(v0, v2, v1); b1(v3, v4, v5): v6 = const 2; v7 = const 1; br b1(v5, v5, v5) }
random, well defined, 51 -- C func { b0(v0, v1): v2 = const 0; box { b0(): v3, v4 = pair; scope v3 v2 { b0(v5): v6 = div v5 v4; v7 = read; br b2(); b1(): v8 = read; v9, v10 = pair; ret; \
    b2(): ret }; cbr v4 b1(v2) b1(v4); b1(v11): box { b0(): ret }; ret }; v12 = read; v13 = add v2 v12; ret } \
    => func { b0(v0, v1): v2 = const 0; box { b0(): v3, v4 = pair; scope v3 v2 { b0(v5): v6 = div v5 v4; v7 = read; ret }; cbr v4 b1(v2) b1(v4); \
        b1(v8): box { b0(): ret }; ret }; v9 = read; v10 = add v2 v9; ret }
random, well defined, 52 -- C func { b0(): v0, v1 = pair; v2 = const -3; v3 = mul v1 v1; br b1(v0, v0, v1); \
    b1(v4, v5, v6): scope v6 { b0(v7): v8 = add v1 v3; v9 = const 0; ret }; sink v6 v5; v10 = add v6 v4; cbr v3 b2() b2(); \
    b2(): v11 = read; v12 = const 2; scope v12 { b0(v13): br b0(v13) }; ret v11 } \
    => func { b0(): v0, v1 = pair; v2 = const -3; v3 = mul v1 v1; scope v1 { b0(v4): v5 = add v1 v3; v6 = const 0; ret }; sink v1 v0; v7 = add v1 v0; \
        cbr v3 b1() b1(); b1(): v8 = read; v9 = const 2; scope v9 { b0(v10): br b0(v10) }; ret v8 }
random, well defined, 53 -- C func { b0(): v0 = const 0; v1 = add v0 v0; cbr v0 b2(v1) b2(v0); b1(): print v1; v2 = mul v0 v0; v3 = add v2 v0; cbr v2 b2(v2) b2(v1); \
    b2(v4): v5, v6 = pair; ret } \
    => func { b0(): v0 = const 0; v1 = add v0 v0; v2, v3 = pair; ret }
random, well defined, 54 -- C func { b0(): box { b0(): sink; v0 = const 0; ret }; sink; v1 = const 0; br b2(v1); \
    b1(): box { b0(): scope v1 v1 { b0(v2, v3): br b0(v3, v2) }; cbr v1 b1(v1) b1(v1); b1(v4): v5 = const 0; br b1(v4) }; cbr v1 b1() b3(v1, v1); \
    b2(v6): sink v6; print v1; v7 = mul v6 v6; ret; b3(v8, v9): v10 = mul v9 v8; v11 = add v10 v9; ret } \
    => func { b0(): box { b0(): sink; v0 = const 0; ret }; sink; v1 = const 0; sink v1; print v1; v2 = mul v1 v1; ret }
random, well defined, 55 -- U func { b0(): sink; v0, v1 = pair; v2, v3 = pair; ret v3 } => func { b0(): sink; v0, v1 = pair; v2, v3 = pair; ret v3 }
random, well defined, 56 -- C func { b0(v0, v1): v2 = add v1 v0; v3 = const 7; v4 = const 0; v5 = const 5; cbr v5 b2() b2(); \
    b1(v6): v7 = const 2; v8 = read; v9, v10 = pair; v11, v12 = pair; cbr v9 b2() b2(); \
    b2(): v13 = add v0 v5; v14 = const 0; box { b0(v15): v16 = add v13 v1; v17 = mul v13 v16; ret }; v18 = const 0; br b2() } \
    => func { b0(v0, v1): v2 = add v1 v0; v3 = const 7; v4 = const 0; v5 = const 5; br b1(); \
        b1(): v6 = add v0 v5; v7 = const 0; box { b0(v8): v9 = add v6 v1; v10 = mul v6 v9; ret }; v11 = const 0; br b1() }
random, well defined, 57 -- C func { b0(v0): v1, v2 = pair; v3 = const 2; print v3; v4 = const 0; cbr v4 b2(v3, v3, v2) b2(v1, v0, v0); \
    b1(v5, v6): sink v1; print v5; print v6; cbr v5 b1(v3, v5) b1(v2, v6); b2(v7, v8, v9): v10 = add v4 v8; v11 = add v4 v8; ret } \
    => func { b0(v0): v1, v2 = pair; v3 = const 2; print v3; v4 = const 0; v5 = add v4 v0; v6 = add v4 v0; ret }
random, well defined, 58 -- C func { b0(): v0, v1 = pair; v2 = div v0 v1; v3 = const -1; br b1(v3, v0); b1(v4, v5): v6 = const 1; v7 = add v4 v4; ret } \
    => func { b0(): v0, v1 = pair; v2 = div v0 v1; v3 = const -1; v4 = const 1; v5 = add v3 v3; ret }
random, well defined, 59 -- C func { b0(v0, v1): print v0; v2 = const -9223372036854775808; print v2; cbr v2 b2() b1(v0, v0, v0); \
    b1(v3, v4, v5): box { b0(): print v5; ret }; v6 = add v3 v1; print v6; br b1(v0, v5, v6); \
    b2(): print v0; sink; v7 = div v0 v2; scope v7 v2 { b0(v8, v9): ret }; ret } \
    => func { b0(v0, v1): print v0; v2 = const -9223372036854775808; print v2; print v0; sink; v3 = div v0 v2; scope v3 v2 { b0(v4, v5): ret }; ret }
random, well defined, 60 -- C func { b0(v0, v1): v2 = add v1 v1; v3 = const -3; v4, v5 = pair; v6 = add v0 v2; br b2(v2, v1); b1(): v7 = read; cbr v3 b2(v7, v7) b2(v7, v1); \
    b2(v8, v9): v10 = const 1; ret } \
    => func { b0(v0, v1): v2 = add v1 v1; v3 = const -3; v4, v5 = pair; v6 = add v0 v2; v7 = const 1; ret }";

pub static HOSTILE: &str = "\
random, ill defined, 1 -- U func { b0(v0): box { b0(v1): v2 = const -1; ret }; v3 = div v0 v0; cbr v0 b1(v0) b1(v3, v3); b1(v4, v5): v6 = mul v4 v6; v7, v8 = pair; ret } \
    => func { b0(v0): box { b0(v1): v2 = const -1; ret }; v3 = div v0 v0; cbr v0 b1(v0) b1(v3, v3); b1(v4, v5): v6 = mul v4 v6; v7, v8 = pair; ret }
random, ill defined, 2 -- C func { b0(): v0 = const 1; v1 = const 2; cbr v1 b2() b1(v0); b1(v2): box { b0(): v3 = const 7; v4 = read; ret }; br b2(v2); \
    b2(v5): v6 = const 7; v7 = div v1 v5; ret v0 } \
    => func { b0(): v0 = const 1; v1 = const 2; br b1(); b1(v2): v3 = const 7; v4 = div v1 v2; ret v0 }
random, ill defined, 3 -- C func { b0(v0, v1): v2 = add v14 v2; print v1; v3 = const 0; sink v2; cbr v3 b1(v1) b1(v3); \
    b1(v4): box { b0(v5): v6 = add v5 v1; ret }; box { b0(v7): br b1(v7, v1, v7); \
    b1(v8, v9, v10): v11 = add v10 v5; print v8 }; box { b0(): v12 = const 1; v13 = read; ret }; v14 = add v4 v3; ret } \
    => func { b0(v0, v1): v2 = add v10 v2; print v1; v3 = const 0; sink v2; box { b0(v4): v5 = add v4 v1; ret }; box { b0(v6): v7 = add v6 v4; print v6 }; \
        box { b0(): v8 = const 1; v9 = read; ret }; v10 = add v3 v3; ret }
random, ill defined, 4 -- C func { b0(v0): v1 = div v0 v0; sink v3; v2 = const 7; br b1(v1, v0); b1(v3, v4): v5 = read; print v5; v6 = add v1 v2; sink; br b2(v6); \
    b2(v7): sink; ret v7 } \
    => func { b0(v0): v1 = div v0 v0; sink v1; v2 = const 7; v3 = read; print v3; v4 = add v1 v2; sink; sink; ret v4 }
random, ill defined, 5 -- R func { b0(v0, v1): v2 = const 0; print v2; br b3(); b1(v3, v4): v5 = const 1; v6 = add v5 v4; cbr v5 b2(v3, v6, v5) b3(v6); \
    b2(v7, v8, v9): scope v9 v8 { b0(v10, v11): v12 = mul v10 v10 }; v13 = const 9223372036854775807; br b1(v8, v8); b3(): v14 = const 0; ret v7 } \
    => func { b0(v0, v1): v2 = const 0; print v2; br b3(); b1(v3, v4): v5 = const 1; v6 = add v5 v4; br b2(v3, v6, v5); \
        b2(v7, v8, v9): scope v9 v8 { b0(v10, v11): v12 = mul v10 v10 }; v13 = const 9223372036854775807; br b1(v8, v8); b3(): v14 = const 0; ret v7 }
random, ill defined, 6 -- C func { b0(): v0 = div v3 v1; v1 = add v0 v0; print v1; v2 = const -3; cbr v2 b1(v1, v2) b3(); \
    b1(v3, v4): v5 = const 0; v6, v7 = pair; v8 = const 9223372036854775807; sink; ret v0; \
    b2(v9): v10 = div v7 v9; v11 = add v10 v10; v12 = add v10 v10; v13 = add v12 v10; br b3(); b3(): print v0; ret v1 } \
    => func { b0(): v0 = div v1 v1; v1 = add v0 v0; print v1; v2 = const -3; v3 = const 0; v4, v5 = pair; v6 = const 9223372036854775807; sink; ret v0 }
random, ill defined, 7 -- U func { b0(): box { b0(): v0 = const 2; box { b0(): v1 = mul v0 v0; v2 = const 7 }; ret }; v3 = add v0 v0; cbr v4 b1(v3, v3) b1(v3, v3); \
    b1(v4, v5): v6 = div v4 v0; v7 = const 1; ret v3 } \
    => func { b0(): box { b0(): v0 = const 2; box { b0(): v1 = mul v0 v0; v2 = const 7 }; ret }; v3 = add v0 v0; cbr v4 b1(v3, v3) b1(v3, v3); \
        b1(v4, v5): v6 = div v4 v0; v7 = const 1; ret v3 }
random, ill defined, 8 -- C func { b0(v0): sink v0 v0; v1 = const -3; br b3(v0, v0); b1(v2, v3): v4 = const 0; cbr v4 b3(v4) b3(v2, v4); \
    b2(v5, v6): box { b0(): v7 = const 7; sink; ret }; v8, v9 = pair; print v0; v10 = add v6 v8; br b2(v5, v1); b3(v11): v12 = div v11 v0; ret } \
    => func { b0(v0): sink v0 v0; v1 = const -3; br b1(v0, v0); b1(v2): v3 = div v2 v0; ret }
random, ill defined, 9 -- C func { b0(v0, v1): v2 = const 9223372036854775807; v3 = add v0 v1; v4 = const 7; br b1(v1); b1(v5): v6 = div v6 v5; ret } \
    => func { b0(v0, v1): v2 = const 9223372036854775807; v3 = add v0 v1; v4 = const 7; v5 = div v5 v1; ret }
random, ill defined, 10 -- C func { b0(v0): print v9; v1 = add v0 v0; v2 = const 7; cbr v2 b1(v0, v4) b1(v2); b1(v3): sink v2 v4; v4 = add v1 v3; scope v3 { b0(): cbr v6 b1() b1(); \
    b1(): v5 = add v3 v2; ret }; scope { b0(): v6 = const -1; br b1(v6); b1(v7, v8): v9 = read; ret }; ret v4 } \
    => func { b0(v0): print v9; v1 = add v0 v0; v2 = const 7; br b1(v0, v4); \
        b1(v3): sink v2 v4; v4 = add v1 v3; scope v3 { b0(): v5 = add v3 v2; ret }; scope { b0(): v6 = const -1; br b1(v6); \
        b1(v7, v8): v9 = read; ret }; ret v4 }
random, ill defined, 11 -- R func { b0(v0, v1): box { b0(v2): sink v2 v6; v3 = mul v0 v7; br b1(); b1(): cbr v1 b1() b1() }; br b1(); b1(): v4 = const 7; cbr v4 b1() b3(v4); \
    b2(): v5 = mul v4 v5; v6 = add v5 v4; br b2(); b3(v7): v8 = add v8 v1; v9 = mul v8 v0; cbr v8 b2() b2() } \
    => func { b0(v0, v1): box { b0(v2): sink v2 v6; v3 = mul v0 v7; br b1(); b1(): cbr v1 b1() b1() }; br b1(); b1(): v4 = const 7; br b1(); \
        b2(): v5 = mul v4 v5; v6 = add v5 v4; br b2(); b3(v7): v8 = add v8 v1; v9 = mul v8 v0; cbr v8 b2() b2() }
random, ill defined, 12 -- C func { b0(v0, v1): print v1; v2 = add v6 v0; br b1(); b1(): print v2; v3 = add v0 v8; scope v3 { b0(v4): br b1(v0, v4, v4); \
    b1(v5, v6): sink; v7, v8 = pair; print v0; b2(): v9, v10 = pair; v11 = add v1 v9; ret }; ret } \
    => func { b0(v0, v1): print v1; v2 = add v6 v0; print v2; v3 = add v0 v8; scope v3 { b0(v4): br b1(v0, v4, v4); \
        b1(v5, v6): sink; v7, v8 = pair; print v0 }; ret }
random, ill defined, 13 -- U func { b0(v0): print v0; sink v2 v0; br b1(v0); b1(v1): v2 = div v1 v1; cbr v1 b1(v2, v1) b1(v1) } \
    => func { b0(v0): print v0; sink v2 v0; br b1(v0); b1(v1): v2 = div v1 v1; cbr v1 b1(v2, v1) b1(v1) }
random, ill defined, 14 -- C func { b0(v0): v1 = const 2; v2 = add v1 v0; br b1(v2, v2); b1(v3, v4, v5): sink v5 v1 v7; scope v8 v1 { b0(): v6 = const 2; cbr v6 b1(v6) b2(v6, v6, v6); \
    b1(v7): v8 = const 0; b2(v9, v10, v11): fork v10 b2 b1 }; v12, v13 = pair; cbr v1 b2(v13) b2(v4); b2(v14): v15 = mul v14 v2; ret } \
    => func { b0(v0): v1 = const 2; v2 = add v1 v0; br b1(v2, v2); b1(v3, v4, v5): sink v5 v1 v6; scope v7 v1 { b0(): v6 = const 2; v7 = const 0 }; \
        v8, v9 = pair; v10 = mul v9 v2; ret }
random, ill defined, 15 -- C func { b0(v0): sink; v1 = mul v0 v0; br b1(v10); b1(v2): v3 = add v2 v2; v4 = const 7; br b3(v2, v3); b2(v5): v6 = const 7; print v6; br b2(v6); \
    b3(v7, v8): v9 = add v8 v8; v10 = add v8 v8; print v7; ret v0 } \
    => func { b0(v0): sink; v1 = mul v0 v0; v2 = add v5 v5; v3 = const 7; v4 = add v2 v2; v5 = add v2 v2; print v5; ret v0 }
random, ill defined, 16 -- C func { b0(v0, v1): v2 = const 2; scope { b0(): }; print v14; v3 = const 1; cbr v2 b1(v1) b2(v3); \
    b1(v4): sink; v5 = const 2; box { b0(): v6, v7 = pair; br b0() }; br b3(v5, v4); \
    b2(v8): box { b0(): v9, v10 = pair; v11 = const 7 }; print v1; cbr v8 b3(v3, v3, v3) b3(v3, v8); b3(v12, v13): print v0; v14 = div v13 v13; ret } \
    => func { b0(v0, v1): v2 = const 2; scope { b0(): }; print v7; v3 = const 1; sink; v4 = const 2; box { b0(): v5, v6 = pair; br b0() }; print v0; \
        v7 = div v1 v1; ret }
random, ill defined, 17 -- R func { b0(v0): v1 = div v0 v9; v2 = const -3; br b2(v1); b1(v3): box { b0(v4): v5 = const 0; print v4; v6, v7 = pair; cbr v6 b1(v7) b1(v6, v6); \
    b1(v8): }; ret; b2(v9, v10): print v2; scope v9 { b0(v11): sink v11 v3 v11; ret }; br b3(); b3(): sink v2 v1; v12 = const -3; v13 = div v12 v6; ret v12 } \
    => func { b0(v0): v1 = div v0 v9; v2 = const -3; br b2(v1); b1(v3): box { b0(v4): v5 = const 0; print v4; v6, v7 = pair; cbr v6 b1(v7) b1(v6, v6); \
        b1(v8): }; ret; b2(v9, v10): print v2; scope v9 { b0(v11): sink v11 v3 v11; ret }; br b3(); \
        b3(): sink v2 v1; v12 = const -3; v13 = div v12 v6; ret v12 }
random, ill defined, 18 -- C func { b0(v0, v1): v2 = const 0; v3, v4 = pair; v5 = const 1; cbr v2 b2(v5) b2(); b1(v6): sink; br b1(v1); \
    b2(): v7 = add v2 v5; sink v3 v7; v8 = const 1; v9 = div v7 v1; ret v7 } \
    => func { b0(v0, v1): v2 = const 0; v3, v4 = pair; v5 = const 1; v6 = add v2 v5; sink v3 v6; v7 = const 1; v8 = div v6 v1; ret v6 }
random, ill defined, 19 -- U func { b0(v0): v1 = const -3; v2 = const 0; v3, v4 = pair; br b1(); b1(): v5, v6 = pair; scope v5 { b0(v7): sink; ret }; sink v2 v6 v5; br b1() } \
    => func { b0(v0): v1 = const -3; v2 = const 0; v3, v4 = pair; br b1(); b1(): v5, v6 = pair; scope v5 { b0(v7): sink; ret }; sink v2 v6 v5; br b1() }
random, ill defined, 20 -- C func { b0(): v0, v1 = pair; v2 = const -3; br b2(v5); b1(v3): v4 = add v3 v0; cbr v3 b1(v2) b1(v3); \
    b2(v5): box { b0(v6): box { b0(): cbr v6 b0() b0() }; v7 = const 3; box { b0(): v8, v9 = pair; v10 = mul v8 v0; v11, v12 = pair; \
    cbr v8 b1(v12) b1(v0, v11); b1(v13, v14): }; cbr v7 b0(v6) b0(v7) }; ret } \
    => func { b0(): v0, v1 = pair; v2 = const -3; br b1(v3); b1(v3): box { b0(v4): box { b0(): cbr v4 b0() b0() }; v5 = const 3; box { b0(): v6, v7 = pair; \
        v8 = mul v6 v0; v9, v10 = pair; cbr v6 b1(v10) b1(v0, v9); b1(v11, v12): }; br b0(v4) }; ret }
random, ill defined, 21 -- C func { b0(): v0 = add v9 v9; sink v0 v0 v0; v1 = const 0; cbr v1 b2() b1(v1); b1(): v2 = const 0; v3 = const 3; br b2(); \
    b2(): v4 = add v0 v1; scope { b0(): box { b0(): v5 = add v4 v4; br b1(v5, v5); b1(v6, v7): v8 = mul v6 v7 }; cbr v1 b1() b1(); \
    b1(): v9 = const 0 }; ret v1 } \
    => func { b0(): v0 = add v7 v7; sink v0 v0 v0; v1 = const 0; br b1(v1); \
        b1(): v2 = const 0; v3 = const 3; v4 = add v0 v1; scope { b0(): box { b0(): v5 = add v4 v4; v6 = mul v5 v5 }; v7 = const 0 }; ret v1 }
random, ill defined, 22 -- C func { b0(v0, v1): v2, v3 = pair; br b1(); b1(): v4 = const 7; br b2(v0); b2(v5): v6 = mul v5 v6; v7 = div v0 v0; ret v6 } \
    => func { b0(v0, v1): v2, v3 = pair; v4 = const 7; v5 = mul v0 v5; v6 = div v0 v0; ret v5 }
random, ill defined, 23 -- R func { b0(): v0 = read; box { b0(v1): }; fork v0 b2 b2; b1(): v2 = const -3; sink; cbr v2 b2(v2, v2, v2) b1(); \
    b2(v3, v4): v5 = div v2 v1; v6, v7 = pair; ret v7 } \
    => func { b0(): v0 = read; box { b0(v1): }; fork v0 b2 b2; b1(): v2 = const -3; sink; br b2(v2, v2, v2); \
        b2(v3, v4): v5 = div v2 v1; v6, v7 = pair; ret v7 }
random, ill defined, 24 -- C func { b0(v0, v1): box { b0(): v2 = const 0; cbr v2 b0() b0(v2) }; scope { b0(): print v0; br b1(v1, v1); b1(v3, v4): v5 = const 2; sink v3 v0 v5; ret; \
    b2(): br b1(v0, v0) }; v6 = const 0; br b0(v6, v0) } \
    => func { b0(v0, v1): box { b0(): v2 = const 0; br b0(v2) }; scope { b0(): print v0; v3 = const 2; sink v1 v0 v3; ret }; v4 = const 0; br b0(v4, v0) }
random, ill defined, 25 -- U func { b0(v0): v1 = add v0 v0; print v0; v2 = add v1 v0; v3 = mul v1 v2; cbr v1 b1(v2, v0, v1) b1(v1, v1); \
    b1(v4, v5): v6 = const -3; print v0; print v5; ret v5 } \
    => func { b0(v0): v1 = add v0 v0; print v0; v2 = add v1 v0; v3 = mul v1 v2; cbr v1 b1(v2, v0, v1) b1(v1, v1); \
        b1(v4, v5): v6 = const -3; print v0; print v5; ret v5 }
random, ill defined, 26 -- C func { b0(v0): v1 = add v0 v0; v2 = const 0; cbr v2 b1() b2(); b1(): print v2; v3 = const 7; v4 = const 9223372036854775807; v5 = div v3 v1; br b2(); \
    b2(): sink; v6 = div v0 v1; ret } \
    => func { b0(v0): v1 = add v0 v0; v2 = const 0; sink; v3 = div v0 v1; ret }
random, ill defined, 27 -- C func { b0(): v0 = div v8 v4; v1 = div v0 v9; v2 = const -9223372036854775808; v3, v4 = pair; cbr v2 b2() b3(v2, v2); \
    b1(v5, v6, v7): print v3; br b3(v6, v7); b2(): v8 = add v0 v11; sink; cbr v8 b3(v8, v8) b1(v8, v10, v3); b3(v9, v10): sink; v11 = add v9 v9; ret v3 } \
    => func { b0(): v0 = div v5 v4; v1 = div v0 v9; v2 = const -9223372036854775808; v3, v4 = pair; v5 = add v0 v11; sink; cbr v5 b2(v5, v5) b1(v5, v10, v3); \
        b1(v6, v7, v8): print v3; br b2(v7, v8); b2(v9, v10): sink; v11 = add v9 v9; ret v3 }
random, ill defined, 28 -- C func { b0(v0): v1 = const 7; br b1(v0, v0); b1(v2, v3): print v3; ret v3; b2(): v4 = add v1 v2; ret v1 } => func { b0(v0): v1 = const 7; print v0; ret v0 }
random, ill defined, 29 -- R func { b0(): sink v3 v0 v5; cbr v3 b1(v0) b1(); b1(v0): v1 = add v0 v0; ret v3; b2(v2, v3, v4): v5 = add v2 v4; cbr v4 b2(v4, v5, v3) b2(v5, v5, v3) } \
    => func { b0(): sink v3 v0 v5; cbr v3 b1(v0) b1(); b1(v0): v1 = add v0 v0; ret v3; b2(v2, v3, v4): v5 = add v2 v4; cbr v4 b2(v4, v5, v3) b2(v5, v5, v3) }
random, ill defined, 30 -- C func { b0(v0): v1 = const 0; v2 = add v0 v0; cbr v1 b2(v2, v1, v1) b2(v1, v1); \
    b1(v3, v4, v5): v6 = const 7; v7 = const 7; v8 = add v2 v6; cbr v8 b1(v3, v0, v5, v8) b1(v5, v1); \
    b2(v9, v10): box { b0(): sink v0 v10 v10 }; v11 = read; v12 = const 0; ret } \
    => func { b0(v0): v1 = const 0; v2 = add v0 v0; box { b0(): sink v0 v1 v1 }; v3 = read; v4 = const 0; ret }
random, ill defined, 31 -- U func { b0(v0): v1 = add v0 v0; v2 = div v1 v1; v3 = add v2 v2; v4 = add v3 v2; ret v1 } \
    => func { b0(v0): v1 = add v0 v0; v2 = div v1 v1; v3 = add v2 v2; v4 = add v3 v2; ret v1 }
random, ill defined, 32 -- C func { b0(v0, v1): v2 = const 7; cbr v2 b1() b2(v1, v2); b1(): v3 = add v1 v1; print v0; cbr v3 b1() b1(v3); b2(v4, v5): v6 = add v4 v5; ret } \
    => func { b0(v0, v1): v2 = const 7; br b1(); b1(): v3 = add v1 v1; print v0; cbr v3 b1() b1(v3) }
random, ill defined, 33 -- C func { b0(v0): v1 = add v0 v10; v2 = const 0; v3 = read; box { b0(): v4 = div v7 v6; br b1(); \
    b1(v5): v6 = const 2; v7 = add v5 v3; br b1(v5, v7) }; cbr v2 b1(v1) b1(v2); b1(v8): v9 = div v8 v8; v10 = add v2 v8; v11 = div v10 v3; sink; ret v10 } \
    => func { b0(v0): v1 = add v0 v9; v2 = const 0; v3 = read; box { b0(): v4 = div v7 v6; br b1(); \
        b1(v5): v6 = const 2; v7 = add v5 v3; br b1(v5, v7) }; v8 = div v2 v2; v9 = add v2 v2; v10 = div v9 v3; sink; ret v9 }
random, ill defined, 34 -- C func { b0(v0): print v0; scope v0 { b0(v1): v2 = mul v1 v1 }; br b1(v0, v0); b1(v3, v4): v5 = read; scope v5 { b0(): ret }; v6 = add v3 v5; ret } \
    => func { b0(v0): print v0; scope v0 { b0(v1): v2 = mul v1 v1 }; v3 = read; scope v3 { b0(): ret }; v4 = add v0 v3; ret }
random, ill defined, 35 -- R func { b0(v0, v1): v2 = read; sink v3 v2 v3; v3 = mul v0 v0; cbr v1 b2(v7, v1, v2) b1(); b1(): v4 = div v0 v3; scope v0 { b0(): v5 = const 7; br b1(); \
    b1(): v6 = div v0 v0; br b1(); b2(): v7 = const -3; v8 = mul v3 v7; ret }; ret; b2(v9, v10, v11): sink v9 v2; v12 = const -3; ret v10 } \
    => func { b0(v0, v1): v2 = read; sink v3 v2 v3; v3 = mul v0 v0; cbr v1 b2(v7, v1, v2) b1(); b1(): v4 = div v0 v3; scope v0 { b0(): v5 = const 7; br b1(); \
        b1(): v6 = div v0 v0; br b1(); b2(): v7 = const -3; v8 = mul v3 v7; ret }; ret; b2(v9, v10, v11): sink v9 v2; v12 = const -3; ret v10 }
random, ill defined, 36 -- C func { b0(v0, v1): v2 = add v1 v0; v3 = add v1 v1; br b2(v0, v0); b1(): v4 = read; v5 = add v4 v4; cbr v4 b1(v5) b2(v4, v5); \
    b2(v6, v7): scope v6 v7 { b0(): print v7; v8 = const 0; v9 = add v9 v1 }; print v7; v10, v11 = pair; ret } \
    => func { b0(v0, v1): v2 = add v1 v0; v3 = add v1 v1; scope v0 v0 { b0(): print v0; v4 = const 0; v5 = add v5 v1 }; print v0; v6, v7 = pair; ret }
random, ill defined, 37 -- U func { b0(v0): sink v0; sink; cbr v0 b2(v2) b1(); b1(): v1 = mul v0 v0; sink; v2 = div v2 v1; print v3; cbr v2 b2(v2, v2) b1(v1); \
    b2(v3): v4 = read; v5 = div v4 v3; ret v5 } \
    => func { b0(v0): sink v0; sink; cbr v0 b2(v2) b1(); b1(): v1 = mul v0 v0; sink; v2 = div v2 v1; print v3; cbr v2 b2(v2, v2) b1(v1); \
        b2(v3): v4 = read; v5 = div v4 v3; ret v5 }
random, ill defined, 38 -- C func { b0(v0): v1 = const 2; box { b0(): br b0() }; v2 = const 7; v3 = add v1 v2; cbr v1 b3(v1, v2, v2) b1(v3); \
    b1(): v4, v5 = pair; v6 = read; br b3(v0, v6); b2(v7): v8 = mul v7 v7; v9 = const -1; br b2(v8); \
    b3(v10, v11, v12): v13 = const 0; v14 = const -3; br b3(v11, v13, v10) } \
    => func { b0(v0): v1 = const 2; box { b0(): br b0() }; v2 = const 7; v3 = add v1 v2; br b1(v1, v2, v2); \
        b1(v4, v5, v6): v7 = const 0; v8 = const -3; br b1(v5, v7, v4) }
random, ill defined, 39 -- C func { b0(v0): v1 = add v0 v0; v2 = const -3; cbr v2 b1() b2(v1, v1, v0); b1(): v3 = const 0; v4 = const 0; v5 = mul v4 v2; print v3; ret v4; \
    b2(v6, v7, v8): box { b0(v9): cbr v9 b1() b1(); b1(): v10 = const 0; cbr v0 b1(v9) b1() }; ret v7 } \
    => func { b0(v0): v1 = add v0 v0; v2 = const -3; v3 = const 0; v4 = const 0; v5 = mul v4 v2; print v3; ret v4 }
random, ill defined, 40 -- C func { b0(v0): v1 = mul v0 v0; cbr v1 b1() b1(); b1(): v2 = const -3; sink v1; v3 = add v2 v0; v4 = const 1; br b2(); \
    b2(): sink v0 v1 v1; cbr v0 b1() b1(v0) } \
    => func { b0(v0): v1 = mul v0 v0; cbr v1 b1() b1(); b1(): v2 = const -3; sink v1; v3 = add v2 v0; v4 = const 1; sink v0 v1 v1; cbr v0 b1() b1(v0) }
random, ill defined, 41 -- R func { b0(v0, v1): scope v1 { b0(v2): v3 = add v12 v2; v4 = const 0 }; cbr v0 b2(v1, v0, v5) b2(v1, v0); \
    b1(v5, v6): v7 = add v3 v11; v8 = const 0; br b1(v8, v1); b2(v9, v10): v11 = add v9 v0; v12 = const 0; scope v11 { b0(v13): v14, v15 = pair }; \
    fork v10 b2 b2 } \
    => func { b0(v0, v1): scope v1 { b0(v2): v3 = add v12 v2; v4 = const 0 }; cbr v0 b2(v1, v0, v5) b2(v1, v0); \
        b1(v5, v6): v7 = add v3 v11; v8 = const 0; br b1(v8, v1); b2(v9, v10): v11 = add v9 v0; v12 = const 0; scope v11 { b0(v13): v14, v15 = pair }; \
        fork v10 b2 b2 }
random, ill defined, 42 -- C func { b0(v0, v1): v2 = add v1 v0; v3 = mul v2 v2; br b3(v7, v1); b1(v4, v5): v6, v7 = pair; v8 = const 1; v9 = add v3 v2; cbr v3 b3(v0) b3(v4, v4); \
    b2(): v10 = const 1; print v12; br b2(); b3(v11, v12): print v12; box { b0(v13): sink v13 v13; v14 = mul v13 v13; v15 = mul v8 v2; ret }; \
    br b1(v12, v11) } \
    => func { b0(v0, v1): v2 = add v1 v0; v3 = mul v2 v2; br b1(v10, v1); \
        b1(v4, v5): print v5; box { b0(v6): sink v6 v6; v7 = mul v6 v6; v8 = mul v11 v2; ret }; v9, v10 = pair; v11 = const 1; v12 = add v3 v2; \
        cbr v3 b1(v0) b1(v5, v5) }
random, ill defined, 43 -- U func { b0(v0): v1, v2 = pair; v3 = const 0; ret v1 } => func { b0(v0): v1, v2 = pair; v3 = const 0; ret v1 }
random, ill defined, 44 -- R func { b0(): v0 = div v8 v8; v1 = read; v2 = const 7; v3 = const -1; cbr v1 b2(v0) b2(v2); \
    b1(v4): v5 = add v4 v0; v6 = div v5 v4; v7 = div v5 v6; v8 = mul v7 v0; cbr v5 b1(v4) b1(v3); b2(v9): v10, v11 = pair; cbr v2 b2(v10) b2(v9, v1); \
    b3(v12, v13, v14): v15 = const 0; v16 = mul v2 v14; ret v12 } \
    => func { b0(): v0 = div v8 v8; v1 = read; v2 = const 7; v3 = const -1; cbr v1 b2(v0) b2(v2); \
        b1(v4): v5 = add v4 v0; v6 = div v5 v4; v7 = div v5 v6; v8 = mul v7 v0; cbr v5 b1(v4) b1(v3); b2(v9): v10, v11 = pair; br b2(v10); \
        b3(v12, v13, v14): v15 = const 0; v16 = mul v2 v14; ret v12 }
random, ill defined, 45 -- C func { b0(): v0 = const 0; cbr v0 b1(v2) b1(v0); b1(v1): v2 = mul v1 v1; print v4; scope v2 v1 { b0(v3): br b1(); b1(): v4 = read; br b1(v0) }; ret v0 } \
    => func { b0(): v0 = const 0; v1 = mul v0 v0; print v3; scope v1 v0 { b0(v2): br b1(); b1(): v3 = read; br b1(v0) }; ret v0 }
random, ill defined, 46 -- C func { b0(v0, v1): v2 = const 2; v3 = const 2; br b1(v3); b1(v4): v5 = add v4 v5; v6 = add v0 v5; print v5; ret } \
    => func { b0(v0, v1): v2 = const 2; v3 = const 2; v4 = add v3 v4; v5 = add v0 v4; print v4; ret }
random, ill defined, 47 -- R func { b0(): print v1; ret; b1(v0): v1 = const -9223372036854775808; cbr v0 b1(v1) b2(); b2(): v2 = add v2 v1; ret } \
    => func { b0(): print v1; ret; b1(v0): v1 = const -9223372036854775808; cbr v0 b1(v1) b2(); b2(): v2 = add v2 v1; ret }
random, ill defined, 48 -- C func { b0(): v0 = const 1; cbr v0 b3() b1(); b1(): v1 = add v0 v5; scope v5 v0 { b0(v2): sink v0 v2 v2; v3, v4 = pair }; cbr v1 b3() b2(v5, v1, v1); \
    b2(v5, v6): v7 = const 7; v8 = mul v5 v0; br b3(); b3(): v9 = const 2; ret v9 } \
    => func { b0(): v0 = const 1; v1 = const 2; ret v1 }
random, ill defined, 49 -- U func { b0(): v0 = const -1; v1 = div v0 v3; v2 = const -3; br b1(); b1(v3): print v3; print v3; ret } \
    => func { b0(): v0 = const -1; v1 = div v0 v3; v2 = const -3; br b1(); b1(v3): print v3; print v3; ret }
random, ill defined, 50 -- C func { b0(v0): print v0; v1 = const 2; scope { b0(): v2 = add v1 v1; v3 = div v2 v2 }; v4 = div v0 v1; cbr v1 b2() b1(v0); \
    b1(v5, v6): v7 = mul v6 v7; v8 = const 0; cbr v8 b2() b1(v1, v5); b2(): print v2; v9 = const -3; v10 = div v9 v9; ret v9; \
    b3(v11): v12 = div v11 v12; print v11; cbr v0 b1(v12, v0) b1(v12, v0) } \
    => func { b0(v0): print v0; v1 = const 2; scope { b0(): v2 = add v1 v1; v3 = div v2 v2 }; v4 = div v0 v1; print v2; v5 = const -3; v6 = div v5 v5; \
        ret v5 }
random, ill defined, 51 -- C func { b0(v0, v1): print v1; v2 = const 0; cbr v2 b1() b3(v0, v1); b1(v3): scope v3 v11 { b0(v4): v5 = const -1; v6 = const 0; v7 = const -1 }; \
    v8 = const 0; cbr v3 b3(v0, v1) b2(); b2(): v9 = add v12 v1; v10, v11 = pair; cbr v11 b3(v11, v9) b3(v11, v10); \
    b3(v12, v13): v14, v15 = pair; v16 = add v15 v1; ret } \
    => func { b0(v0, v1): print v1; v2 = const 0; v3, v4 = pair; v5 = add v4 v1; ret }
random, ill defined, 52 -- C func { b0(): v0 = add v5 v7; v1, v2 = pair; sink v7 v1 v2; cbr v2 b1(v0, v2) b2(v1); b1(v3, v4): box { b0(v5): v6 = const 0; cbr v6 b1(v6) b1(); \
    b1(): v7 = const -1; v8 = mul v3 v7 }; ret v3; b2(): sink; fork v8 b2 b2; b3(): print v1; v9 = add v2 v1; v10 = mul v9 v8; ret } \
    => func { b0(): v0 = add v5 v7; v1, v2 = pair; sink v7 v1 v2; cbr v2 b1(v0, v2) b2(v1); \
        b1(v3, v4): box { b0(v5): v6 = const 0; v7 = const -1; v8 = mul v3 v7 }; ret v3; b2(): sink; fork v8 b2 b2 }
random, ill defined, 53 -- R func { b0(v0, v1): box { b0(v2): v3 = add v0 v4 }; cbr v1 b3(v0, v1) b3(v1); b1(): v4 = div v1 v0; v5 = const -3; v6 = read; cbr v5 b2(v6, v0) b2(v6, v5); \
    b2(v7, v8): v9 = const 9223372036854775807; v10 = div v7 v9; fork v8 b1 b1; b3(v11): v12, v13 = pair; v14 = const 2; ret } \
    => func { b0(v0, v1): box { b0(v2): v3 = add v0 v4 }; cbr v1 b3(v0, v1) b3(v1); b1(): v4 = div v1 v0; v5 = const -3; v6 = read; br b2(v6, v0); \
        b2(v7, v8): v9 = const 9223372036854775807; v10 = div v7 v9; fork v8 b1 b1; b3(v11): v12, v13 = pair; v14 = const 2; ret }
random, ill defined, 54 -- C func { b0(v0, v1): v2 = mul v1 v0; v3 = const -3; br b2(); b1(v4, v5): v6 = div v5 v5; v7, v8 = pair; v9 = div v0 v5; cbr v6 b2() b1(v8, v6); \
    b2(): v10 = div v2 v1; v11 = div v0 v10; ret v10 } \
    => func { b0(v0, v1): v2 = mul v1 v0; v3 = const -3; v4 = div v2 v1; v5 = div v0 v4; ret v4 }
random, ill defined, 55 -- U func { b0(v0): sink; br b1(); b1(v1): v2 = div v0 v1; v3 = const 1; cbr v2 b1(v1) b1(v2) } \
    => func { b0(v0): sink; br b1(); b1(v1): v2 = div v0 v1; v3 = const 1; cbr v2 b1(v1) b1(v2) }
random, ill defined, 56 -- R func { b0(): print v6; cbr v6 b1(v4, v0, v8) b1(v10, v1, v5); b1(v0, v1, v2): sink v0 v2; scope v2 { b0(v3): v4 = add v3 v3; v5 = const 1; \
    cbr v5 b2(v1, v5, v4) b2(v3, v5, v4); b1(): v6 = add v2 v1; print v6; cbr v6 b1() b1(); b2(v7, v8, v9): ret }; v10 = mul v1 v0; ret v0 } \
    => func { b0(): print v6; cbr v6 b1(v4, v0, v8) b1(v10, v1, v5); b1(v0, v1, v2): sink v0 v2; scope v2 { b0(v3): v4 = add v3 v3; v5 = const 1; \
        br b2(v1, v5, v4); b1(): v6 = add v2 v1; print v6; cbr v6 b1() b1(); b2(v7, v8, v9): ret }; v10 = mul v1 v0; ret v0 }
random, ill defined, 57 -- C func { b0(v0, v1): v2 = const -3; sink v2; br b1(v0, v1); b1(v3): v4, v5 = pair; scope v3 { b0(v6): print v3 }; br b2(v3, v5, v5); \
    b2(v7, v8, v9): v10 = add v8 v8; sink v10 v6; cbr v8 b1(v9) b1(v1) } \
    => func { b0(v0, v1): v2 = const -3; sink v2; br b1(v0, v1); b1(v3): v4, v5 = pair; scope v3 { b0(v6): print v3 }; v7 = add v5 v5; sink v7 v6; \
        cbr v5 b1(v5) b1(v1) }
random, ill defined, 58 -- C func { b0(v0): print v0; br b1(v0, v0, v0); b1(v1, v2, v3): v4 = const 0; box { b0(): box { b0(): print v2; v5 = add v0 v1; v6 = const 0; ret }; \
    v7 = add v3 v3; box { b0(v8): cbr v8 b0(v8) b0() } }; ret v3 } \
    => func { b0(v0): print v0; v1 = const 0; box { b0(): box { b0(): print v0; v2 = add v0 v0; v3 = const 0; ret }; v4 = add v0 v0; \
        box { b0(v5): cbr v5 b0(v5) b0() } }; ret v0 }
random, ill defined, 59 -- R func { b0(v0, v1): v2 = const 0; v3 = add v2 v0; sink; br b2(v3, v1); b1(v4, v5, v6): v7 = read; scope v5 v7 { b0(v8, v9): box { b0(): fork v9 b1 b1; \
    b1(): v10 = div v7 v7; v11 = const 1 }; v12 = const 7; v13 = div v8 v12 }; sink; cbr v7 b2(v4, v6) b2(v7, v5); b2(v14, v15): print v12; ret } \
    => func { b0(v0, v1): v2 = const 0; v3 = add v2 v0; sink; br b2(v3, v1); b1(v4, v5, v6): v7 = read; scope v5 v7 { b0(v8, v9): box { b0(): fork v9 b1 b1; \
        b1(): v10 = div v7 v7; v11 = const 1 }; v12 = const 7; v13 = div v8 v12 }; sink; cbr v7 b2(v4, v6) b2(v7, v5); b2(v14, v15): print v12; ret }
random, ill defined, 60 -- C func { b0(): v0 = div v8 v7; v1 = read; br b2(); b1(v2): v3 = mul v1 v1; br b2(v3); b2(): v4, v5 = pair; v6 = div v4 v5; v7, v8 = pair; ret } \
    => func { b0(): v0 = div v6 v5; v1 = read; v2, v3 = pair; v4 = div v2 v3; v5, v6 = pair; ret }";
