//! Texts, and what rotating their loops makes of them.
//!
//! A line has a name; `C` before a text that changes, and `U` before one that doesn't; then the text before and after.
//! Each was worked through by hand.

pub static LOOPS: &str = "\
a loop that counts -- C func { b0(n): z = const 0; br b1(z); b1(i): c = add i n; cbr c b3() b2(); b2(): print i; o = const 1; j = add i o; br b1(j); b3(): ret i } \
    => func { b0(v0): v1 = const 0; br b4(v1); b1(v2): v3 = add v2 v0; cbr v3 b3(v2) b2(v2); b2(v4): print v4; v5 = const 1; v6 = add v4 v5; br b1(v6); \
    b3(v7): ret v7; b4(v8): v9 = add v8 v0; cbr v9 b3(v8) b2(v8) }
an exit that others lead to -- C func { b0(n): cbr n b1(n) b3(n); b1(i): c = add i n; cbr c b2() b3(i); b2(): print i; br b1(i); b3(x): ret x } \
    => func { b0(v0): cbr v0 b4(v0) b3(v0); b1(v1): v2 = add v1 v0; cbr v2 b2(v1) b3(v1); b2(v3): print v3; br b1(v3); b3(v4): ret v4; \
    b4(v5): v6 = add v5 v0; cbr v6 b2(v5) b3(v5) }
an effect in the header -- C func { b0(n): br b1(); b1(): print n; cbr n b2() b3(); b2(): br b1(); b3(): ret n } \
    => func { b0(v0): br b4(); b1(): print v0; cbr v0 b2() b3(); b2(): br b1(); b3(): ret v0; b4(): print v0; cbr v0 b2() b3() }
a test at the end -- U func { b0(n): br b1(n); b1(i): print i; c = add i n; cbr c b1(c) b2(); b2(): ret n } \
    => func { b0(v0): br b1(v0); b1(v1): print v1; v2 = add v1 v0; cbr v2 b1(v2) b2(); b2(): ret v0 }
a latch that leaves -- U func { b0(n): br b1(n); b1(i): c = add i n; cbr c b2() b3(); b2(): cbr n b1(c) b3(); b3(): ret n } \
    => func { b0(v0): br b1(v0); b1(v1): v2 = add v1 v0; cbr v2 b2() b3(); b2(): cbr v0 b1(v2) b3(); b3(): ret v0 }
a use behind both -- U func { b0(n): br b1(n); b1(i): c = add i n; cbr c b2() b4(); b2(): cbr n b3() b5(); b3(): br b1(i); b4(): br b5(); b5(): ret i } \
    => func { b0(v0): br b1(v0); b1(v1): v2 = add v1 v0; cbr v2 b2() b4(); b2(): cbr v0 b3() b5(); b3(): br b1(v1); b4(): br b5(); b5(): ret v1 }
an entry -- U func { b0(): x = const 1; cbr x b1() b2(); b1(): br b0(); b2(): ret } \
    => func { b0(): v0 = const 1; cbr v0 b1() b2(); b1(): br b0(); b2(): ret }
two edges that enter -- C func { b0(n): cbr n b1(n) b2(); b1(i): print i; cbr i b3() b4(); b2(): br b1(n); b3(): br b1(n); b4(): ret n } \
    => func { b0(v0): cbr v0 b5(v0) b2(); b1(v1): print v1; cbr v1 b3() b4(); b2(): br b5(v0); b3(): br b1(v0); b4(): ret v0; b5(v2): print v2; cbr v2 b3() b4() }
one loop in another -- C func { b0(n): br b1(); b1(): print n; cbr n b2() b5(); b2(): br b3(n); b3(i): cbr i b4() b6(); b4(): br b3(i); b6(): br b1(); b5(): ret n } \
    => func { b0(v0): br b7(); b1(): print v0; cbr v0 b2() b6(); b2(): br b8(v0); b3(v1): cbr v1 b4(v1) b5(); b4(v2): br b3(v2); b5(): br b1(); b6(): ret v0; \
    b7(): print v0; cbr v0 b2() b6(); b8(v3): cbr v3 b4(v3) b5() }
no loop -- U func { b0(x): cbr x b1() b2(); b1(): br b2(); b2(): ret } => func { b0(v0): cbr v0 b1() b2(); b1(): br b2(); b2(): ret }
no blocks -- U mod { } => mod { }
";
