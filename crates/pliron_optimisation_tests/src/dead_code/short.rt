//! Texts whose edges to one block forward different numbers of values, some none and some too many, with what
//! is left of each, as in `cases`. What is left was worked out by hand.
//!
//! In the rows with many `br b1()`, eight edges or more lead to `b1`: where a `fork` leads there too, its
//! arguments stay, whether it is asked first or last, and when nothing uses them only in a later round. A
//! `fork` in a box is erased with the box.

pub static SHORT: &str = "\
the read argument is in the middle -- C func { b0(): ret; b1(v0, v1, v2): ret v1; b2(): br b1(); b3(): br b1() } => func { b0(): ret; b1(v0): ret v0; b2(): br b1(); b3(): br b1() }
edges of every length -- C func { b0(): v0 = read; v1 = read; v2 = read; br b1(v0); b1(v3, v4, v5): ret v4; b2(): br b1(v0, v1, v2); b3(): br b1(); b4(): br b1(v1, v2) } \
    => func { b0(): v0 = read; v1 = read; v2 = read; br b1(); b1(v3): ret v3; b2(): br b1(v1); b3(): br b1(); b4(): br b1(v2) }
edges of every length to a loop -- C func { b0(v0): br b1(v0, v0, v0); b1(v1, v2, v3): cbr v0 b1(v0, v1, v2) b2(); b2(): ret; b3(): br b1(); b4(): br b1(v0) } \
    => func { b0(v0): br b1(); b1(): cbr v0 b1() b2(); b2(): ret; b3(): br b1(); b4(): br b1() }
two edges of a branch, one longer than the block -- C func { b0(v0): v1 = read; v2 = read; cbr v0 b1(v1) b1(v1, v2, v0); b1(v3, v4): print v4; ret } \
    => func { b0(v0): v1 = read; v2 = read; cbr v0 b1() b1(v2, v0); b1(v3): print v3; ret }
arguments that a dead sum reads -- C func { b0(v0): br b1(v0, v0); b1(v1, v2): v3 = add v1 v1; ret; b2(): br b1(); b3(): br b1(v0) } \
    => func { b0(v0): br b1(); b1(): ret; b2(): br b1(); b3(): br b1() }
edges to two blocks -- C func { b0(v0): br b1(v0, v0); b1(v1, v2): cbr v2 b2(v1) b2(v1, v2); b2(v3, v4): print v4; br b1(); b3(): br b2(); b4(): br b1(v0, v0, v0) } \
    => func { b0(v0): br b1(v0); b1(v1): cbr v1 b2() b2(v1); b2(v2): print v2; br b1(); b3(): br b2(); b4(): br b1(v0, v0) }
nine edges that forward nothing -- C func { b0(): ret; b1(v0, v1, v2): ret v1; b2(): br b1(); b3(): br b1(); b4(): br b1(); b5(): br b1(); b6(): br b1(); b7(): br b1(); b8(): br b1(); b9(): br b1(); b10(): br b1() } \
    => func { b0(): ret; b1(v0): ret v0; b2(): br b1(); b3(): br b1(); b4(): br b1(); b5(): br b1(); b6(): br b1(); b7(): br b1(); b8(): br b1(); b9(): br b1(); b10(): br b1() }
a fork before seven edges -- U func { b0(v0): fork v0 b1 b1; b1(v1, v2): ret v2; b2(): br b1(); b3(): br b1(); b4(): br b1(); b5(): br b1(); b6(): br b1(); b7(): br b1(); b8(): br b1() } \
    => func { b0(v0): fork v0 b1 b1; b1(v1, v2): ret v2; b2(): br b1(); b3(): br b1(); b4(): br b1(); b5(): br b1(); b6(): br b1(); b7(): br b1(); b8(): br b1() }
a fork behind eight edges -- U func { b0(v0): ret; b1(v1, v2): ret v2; b2(): br b1(); b3(): br b1(); b4(): br b1(); b5(): br b1(); b6(): br b1(); b7(): br b1(); b8(): br b1(); b9(): br b1(); b10(): fork v0 b0 b1 } \
    => func { b0(v0): ret; b1(v1, v2): ret v2; b2(): br b1(); b3(): br b1(); b4(): br b1(); b5(): br b1(); b6(): br b1(); b7(): br b1(); b8(): br b1(); b9(): br b1(); b10(): fork v0 b0 b1 }
eight edges that forward nothing -- C func { b0(): ret; b1(v0, v1): ret v1; b2(): br b1(); b3(): br b1(); b4(): br b1(); b5(): br b1(); b6(): br b1(); b7(): br b1(); b8(): br b1(); b9(): br b1() } \
    => func { b0(): ret; b1(v0): ret v0; b2(): br b1(); b3(): br b1(); b4(): br b1(); b5(): br b1(); b6(): br b1(); b7(): br b1(); b8(): br b1(); b9(): br b1() }
a fork behind seven edges -- U func { b0(v0): ret; b1(v1, v2): ret v2; b2(): br b1(); b3(): br b1(); b4(): br b1(); b5(): br b1(); b6(): br b1(); b7(): br b1(); b8(): br b1(); b9(): fork v0 b0 b1 } \
    => func { b0(v0): ret; b1(v1, v2): ret v2; b2(): br b1(); b3(): br b1(); b4(): br b1(); b5(): br b1(); b6(): br b1(); b7(): br b1(); b8(): br b1(); b9(): fork v0 b0 b1 }
arguments that die in a later round -- C func { b0(v0): br b1(v0, v0); b1(v1, v2): v3 = add v2 v2; br b2(v3); b2(v4): ret; b3(): br b1(); b4(): br b1(); b5(): br b1(); b6(): br b1(); b7(): br b1(); b8(): br b1(); b9(): br b1(); b10(): br b1() } \
    => func { b0(v0): br b1(); b1(): br b2(); b2(): ret; b3(): br b1(); b4(): br b1(); b5(): br b1(); b6(): br b1(); b7(): br b1(); b8(): br b1(); b9(): br b1(); b10(): br b1() }
a fork, where arguments lose their uses in a later round -- C func { b0(v0): br b1(v0, v0); b1(v1, v2): v3 = add v2 v2; br b2(v3); b2(v4): ret; b3(): fork v0 b1 b1; b4(): br b1(); b5(): br b1(); b6(): br b1(); b7(): br b1(); b8(): br b1(); b9(): br b1() } \
    => func { b0(v0): br b1(v0, v0); b1(v1, v2): br b2(); b2(): ret; b3(): fork v0 b1 b1; b4(): br b1(); b5(): br b1(); b6(): br b1(); b7(): br b1(); b8(): br b1(); b9(): br b1() }
a fork in a box that dies -- C func { b0(): box { b0(): v0 = const 1; fork v0 b1 b1; b1(v1): ret }; br b1(); b1(v2): ret; b2(): br b1(); b3(): br b1(); b4(): br b1(); b5(): br b1(); b6(): br b1(); b7(): br b1(); b8(): br b1(); b9(): br b1() } \
    => func { b0(): br b1(); b1(): ret; b2(): br b1(); b3(): br b1(); b4(): br b1(); b5(): br b1(); b6(): br b1(); b7(): br b1(); b8(): br b1(); b9(): br b1() }
";
