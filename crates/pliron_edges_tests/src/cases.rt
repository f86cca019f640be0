//! Texts, and what leading their edges to the ends of chains makes of them.
//!
//! A line has a name; `C` before a text that changes, and `U` before one that doesn't; then the text before and after.
//! Each was worked through by hand.

pub static ROWS: &str = "\
one block between -- C func { b0(x): cbr x b1() b2(); b1(): br b3(); b2(): print x; br b3(); b3(): ret x } \
    => func { b0(v0): cbr v0 b3() b2(); b1(): br b3(); b2(): print v0; br b3(); b3(): ret v0 }
a chain -- C func { b0(): br b1(); b1(): br b2(); b2(): br b3(); b3(): ret } => func { b0(): br b3(); b1(): br b3(); b2(): br b3(); b3(): ret }
a ring -- U func { b0(x): cbr x b1() b3(); b1(): br b2(); b2(): br b1(); b3(): ret } => func { b0(v0): cbr v0 b1() b3(); b1(): br b2(); b2(): br b1(); b3(): ret }
a block that jumps to itself -- U func { b0(x): print x; cbr x b1() b2(); b1(): br b1(); b2(): ret } => func { b0(v0): print v0; cbr v0 b1() b2(); b1(): br b1(); b2(): ret }
a chain into a ring -- U func { b0(): br b1(); b1(): br b2(); b2(): br b3(); b3(): br b2() } => func { b0(): br b1(); b1(): br b2(); b2(): br b3(); b3(): br b2() }
an argument -- U func { b0(x): cbr x b1(x) b2(); b1(p): br b2(); b2(): ret } => func { b0(v0): cbr v0 b1(v0) b2(); b1(v1): br b2(); b2(): ret }
a forwarded value -- U func { b0(x): cbr x b1() b2(x); b1(): br b2(x); b2(p): ret p } => func { b0(v0): cbr v0 b1() b2(v0); b1(): br b2(v0); b2(v1): ret v1 }
both edges to one end -- C func { b0(x): cbr x b1() b2(); b1(): br b3(); b2(): br b3(); b3(): ret x } => func { b0(v0): cbr v0 b3() b3(); b1(): br b3(); b2(): br b3(); b3(): ret v0 }
an operation more -- U func { b0(x): cbr x b1() b2(); b1(): print x; br b2(); b2(): ret } => func { b0(v0): cbr v0 b1() b2(); b1(): print v0; br b2(); b2(): ret }
an edge back to the entry -- C func { b0(): br b1(); b1(): x = const 1; cbr x b0() b2(); b2(): ret } => func { b0(): br b1(); b1(): v0 = const 1; cbr v0 b1() b2(); b2(): ret }
a region inside -- C func { b0(): box { b0(): br b1(); b1(): br b2(); b2(): ret }; ret } => func { b0(): box { b0(): br b2(); b1(): br b2(); b2(): ret }; ret }
two functions -- C mod { b0(): func { b0(): br b1(); b1(): br b2(); b2(): ret }; func { b0(): ret } } \
    => mod { b0(): func { b0(): br b2(); b1(): br b2(); b2(): ret }; func { b0(): ret } }
no blocks -- U mod { } => mod { }
";
