//! Texts, the index of a block and of an argument of it, and what is left after the uses of that argument were replaced
//! by its one value; `none` where there is none. They were worked out by hand.

pub static ROWS: &str = "\
one edge -- 1 0 func { b0(x): br b1(x); b1(p): ret p } => func { b0(v0): br b1(v0); b1(v1): ret v0 }
two edges of one branch -- 1 0 func { b0(x, c): cbr c b1(x) b1(x); b1(p): ret p } => func { b0(v0, v1): cbr v1 \
    b1(v0) b1(v0); b1(v2): ret v0 }
a join -- 3 0 func { b0(x): cbr x b1() b2(); b1(): br b3(x); b2(): br b3(x); b3(p): ret p } => func { b0(v0): cbr \
    v0 b1() b2(); b1(): br b3(v0); b2(): br b3(v0); b3(v1): ret v0 }
a join of two values -- 3 0 func { b0(x): y = add x x; cbr x b1() b2(); b1(): br b3(x); b2(): br b3(y); b3(p): ret \
    p } => none
a loop that forwards the argument itself -- 1 0 func { b0(x): br b1(x); b1(p): print p; r = read; cbr r b1(p) \
    b2(); b2(): ret p } => func { b0(v0): br b1(v0); b1(v1): print v0; v2 = read; cbr v2 b1(v0) b2(); b2(): ret v0 }
a loop that changes it -- 1 0 func { b0(x): br b1(x); b1(p): q = add p p; r = read; cbr r b1(q) b2(); b2(): ret p } \
    => none
made anew in a loop -- 2 0 func { b0(z): br b1(z); b1(i): a = add i i; br b2(a); b2(p): print p; r = read; cbr r \
    b2(p) b3(); b3(): s = read; cbr s b1(p) b4(); b4(): ret p } => func { b0(v0): br b1(v0); b1(v1): v2 = add v1 v1; \
    br b2(v2); b2(v3): print v2; v4 = read; cbr v4 b2(v2) b3(); b3(): v5 = read; cbr v5 b1(v2) b4(); b4(): ret v2 }
the second argument -- 1 1 func { b0(x, y): br b1(x, y); b1(p, q): r = read; cbr r b1(x, q) b2(); b2(): ret p q } \
    => func { b0(v0, v1): br b1(v0, v1); b1(v2, v3): v4 = read; cbr v4 b1(v0, v1) b2(); b2(): ret v2 v1 }
another argument of the block -- 1 0 func { b0(x): br b1(x, x); b1(p, q): r = read; cbr r b1(q, q) b2(); b2(): ret \
    p } => none
an entry -- 0 0 func { b0(x): ret x } => none
only itself -- 1 0 func { b0(): ret; b1(p): br b1(p) } => none
no edge -- 1 0 func { b0(): ret; b1(p): ret p } => none";
