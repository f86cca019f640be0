//! Well-defined texts made at random, and what constant propagation makes of them.
//!
//! The lines have the form of those of `cases`. `tools/expected` finds the facts: from nothing known and no block
//! executable, round after round over all operations whose operands are determined, until a round changes nothing.

pub static MADE: &str = "\
random 1 -- U blocks=1 constants=0 others=0 func { b0(): sink; ret; b1(): v0 = read; v1 = div v0 v0; cbr v1 b1() b2(); b2(): sink; ret } \
    => func { b0(): sink; ret; b1(): v0 = read; v1 = div v0 v0; cbr v1 b1() b2(); b2(): sink; ret }
random 2 -- C blocks=4 constants=7 others=0 func { b0(): v0 = const 1; box { b0(): cbr v0 b1(v0, v0, v0) b1(v0, v0, v0); b1(v1, v2, v3): v4 = const 2; v5 = div v1 v3; ret }; cbr v0 b1() b1(); \
    b1(): print v0; v6 = add v0 v0; ret v6 } \
    => func { b0(): v0 = const 1; box { b0(): cbr v0 b1(v0, v0, v0) b1(v0, v0, v0); \
        b1(v1, v2, v3): v4 = const 1; v5 = const 1; v6 = const 1; v7 = const 2; v8 = const 1; v9 = div v6 v4; ret }; cbr v0 b1() b1(); \
        b1(): print v0; v10 = const 2; v11 = add v0 v0; ret v10 }
random 3 -- C blocks=2 constants=5 others=0 func { b0(): v0 = const 7; br b2(v0, v0, v0); b1(v1, v2): v3, v4 = pair; v5 = const 2; br b2(v5, v3, v5); b2(v6, v7, v8): v9 = const -3; ret v9 } \
    => func { b0(): v0 = const 7; br b2(v0, v0, v0); b1(v1, v2): v3, v4 = pair; v5 = const 2; br b2(v5, v3, v5); \
        b2(v6, v7, v8): v9 = const 7; v10 = const 7; v11 = const 7; v12 = const -3; ret v12 }
random 4 -- C blocks=5 constants=10 others=0 func { b0(): v0 = const 7; v1 = add v0 v0; br b2(); b1(v2, v3): v4 = const 0; v5 = mul v3 v2; v6 = const -1; print v2; ret v2; \
    b2(): box { b0(): ret }; v7 = const 0; box { b0(): print v1; v8 = const 0; ret }; v9 = const 9223372036854775807; br b1(v9, v0); \
    b3(v10): v11 = const 1; sink v11; ret v10 } \
    => func { b0(): v0 = const 7; v1 = const 14; v2 = add v0 v0; br b2(); \
        b1(v3, v4): v5 = const 7; v6 = const 9223372036854775807; v7 = const 0; v8 = const 9223372036854775801; v9 = mul v5 v6; v10 = const -1; print v6; \
        ret v6; b2(): box { b0(): ret }; v11 = const 0; box { b0(): print v1; v12 = const 0; ret }; v13 = const 9223372036854775807; br b1(v13, v0); \
        b3(v14): v15 = const 1; sink v15; ret v14 }
random 5 -- C blocks=2 constants=3 others=4 func { b0(v0, v1): print v1; v2 = const 0; v3 = add v2 v2; br b3(); \
    b1(v4, v5, v6): v7 = add v1 v2; v8 = const 2; scope { b0(): v9 = mul v8 v1; ret }; v10 = add v4 v4; br b2(); \
    b2(): v11 = mul v3 v1; cbr v0 b2() b1(v11, v11, v1); b3(): v12, v13 = pair; v14 = const 1; ret v13 } \
    => func { b0(v0, v1): print v1; v2 = const 0; v3 = const 0; v4 = add v2 v2; br b3(); \
        b1(v5, v6, v7): v8 = add v1 v2; v9 = const 2; scope { b0(): v10 = mul v9 v1; ret }; v11 = add v5 v5; br b2(); \
        b2(): v12 = mul v3 v1; cbr v0 b2() b1(v12, v12, v1); b3(): v13, v14 = pair; v15 = const 1; ret v14 }
random 6 -- U blocks=2 constants=2 others=5 func { b0(v0): v1 = const 0; cbr v1 b1() b1(); b1(): v2, v3 = pair; v4 = const 2; v5 = div v4 v3; v6 = read; ret v3 } \
    => func { b0(v0): v1 = const 0; cbr v1 b1() b1(); b1(): v2, v3 = pair; v4 = const 2; v5 = div v4 v3; v6 = read; ret v3 }
random 7 -- C blocks=2 constants=5 others=0 func { b0(): v0 = const 3; cbr v0 b1(v0) b1(v0); b1(v1): v2 = const -3; v3 = const 1; v4 = div v2 v2; ret } \
    => func { b0(): v0 = const 3; cbr v0 b1(v0) b1(v0); b1(v1): v2 = const 3; v3 = const -3; v4 = const 1; v5 = const 1; v6 = div v3 v3; ret }
random 8 -- C blocks=5 constants=5 others=8 func { b0(v0, v1): v2 = const 2; v3 = const -3; v4, v5 = pair; cbr v1 b2(v2, v2, v0) b1(); \
    b1(): sink v5 v4; print v5; box { b0(v6): sink v3 v6 v2; v7 = add v4 v6; cbr v6 b1() b1(); \
    b1(): v8 = const -3; cbr v8 b1() b1() }; v9 = mul v1 v1; ret v9; b2(v10, v11, v12): sink v12 v11; ret v4 } \
    => func { b0(v0, v1): v2 = const 2; v3 = const -3; v4, v5 = pair; cbr v1 b2(v2, v2, v0) b1(); \
        b1(): sink v5 v4; print v5; box { b0(v6): sink v3 v6 v2; v7 = add v4 v6; cbr v6 b1() b1(); \
        b1(): v8 = const -3; cbr v8 b1() b1() }; v9 = mul v1 v1; ret v9; b2(v10, v11, v12): v13 = const 2; v14 = const 2; sink v12 v13; ret v4 }
random 9 -- C blocks=3 constants=4 others=3 func { b0(v0): box { b0(): v1 = add v0 v0; v2 = const 2; fork v0 b0 b0 }; v3 = read; br b1(); \
    b1(): sink; v4 = const 0; v5 = add v4 v4; v6 = mul v5 v5; ret v0; b2(): sink; v7, v8 = pair; v9 = div v8 v8; v10 = add v8 v7; cbr v10 b2() b2() } \
    => func { b0(v0): box { b0(): v1 = add v0 v0; v2 = const 2; fork v0 b0 b0 }; v3 = read; br b1(); \
        b1(): sink; v4 = const 0; v5 = const 0; v6 = add v4 v4; v7 = const 0; v8 = mul v5 v5; ret v0; \
        b2(): sink; v9, v10 = pair; v11 = div v10 v10; v12 = add v10 v9; cbr v12 b2() b2() }
random 10 -- C blocks=2 constants=6 others=0 func { b0(): v0 = const 1; v1 = div v0 v0; print v1; sink; cbr v0 b1(v1) b2(v0, v0); b1(v2): v3 = add v2 v2; v4 = const 3; v5 = div v4 v4; ret v4; \
    b2(v6, v7): v8 = div v7 v6; ret v6 } \
    => func { b0(): v0 = const 1; v1 = const 1; v2 = div v0 v0; print v1; sink; cbr v0 b1(v1) b2(v0, v0); \
        b1(v3): v4 = const 1; v5 = const 2; v6 = add v4 v4; v7 = const 3; v8 = const 1; v9 = div v7 v7; ret v7; b2(v10, v11): v12 = div v11 v10; ret v10 }
random 11 -- U blocks=1 constants=0 others=0 func { b0(): ret; b1(v0, v1, v2): v3, v4 = pair; cbr v0 b1(v3, v2, v2) b2(v0); b2(v5): v6 = div v5 v5; print v6; br b1(v5, v6, v6) } \
    => func { b0(): ret; b1(v0, v1, v2): v3, v4 = pair; cbr v0 b1(v3, v2, v2) b2(v0); b2(v5): v6 = div v5 v5; print v6; br b1(v5, v6, v6) }
random 12 -- C blocks=2 constants=4 others=0 func { b0(): v0 = const 0; v1 = add v0 v0; cbr v0 b1(v0, v1) b1(v1, v1); b1(v2, v3): print v3; sink v2; ret v3 } \
    => func { b0(): v0 = const 0; v1 = const 0; v2 = add v0 v0; cbr v0 b1(v0, v1) b1(v1, v1); \
        b1(v3, v4): v5 = const 0; v6 = const 0; print v5; sink v6; ret v5 }
random 13 -- C blocks=3 constants=5 others=2 func { b0(): box { b0(): v0, v1 = pair; cbr v0 b0() b0() }; v2 = const -1; cbr v2 b1(v2, v2, v2) b1(v2, v2, v2); \
    b1(v3, v4, v5): v6 = const 0; sink v6 v4; ret v5 } \
    => func { b0(): box { b0(): v0, v1 = pair; cbr v0 b0() b0() }; v2 = const -1; cbr v2 b1(v2, v2, v2) b1(v2, v2, v2); \
        b1(v3, v4, v5): v6 = const -1; v7 = const -1; v8 = const -1; v9 = const 0; sink v9 v7; ret v6 }
random 14 -- C blocks=4 constants=5 others=2 func { b0(): v0 = const 7; cbr v0 b1(v0, v0) b3(v0); b1(v1, v2): v3 = const 1; scope v0 { b0(): v4 = div v0 v1; cbr v3 b1(v0, v3) b1(v3, v4); \
    b1(v5, v6): br b1(v6, v5) }; ret v2; b2(v7, v8): sink v0; cbr v0 b3(v8) b2(v8, v0); b3(v9): print v9; sink; print v0; ret v9 } \
    => func { b0(): v0 = const 7; cbr v0 b1(v0, v0) b3(v0); b1(v1, v2): v3 = const 7; v4 = const 7; v5 = const 1; scope v0 { b0(): v6 = const 1; \
        v7 = div v0 v4; cbr v5 b1(v0, v5) b1(v5, v6); b1(v8, v9): br b1(v9, v8) }; ret v3; b2(v10, v11): sink v0; cbr v0 b3(v11) b2(v11, v0); \
        b3(v12): print v12; sink; print v0; ret v12 }
random 15 -- C blocks=2 constants=3 others=4 func { b0(): v0 = const -3; cbr v0 b2(v0, v0) b1(); b1(): sink v0; v1 = const 0; v2 = add v1 v1; print v2; cbr v1 b2(v1, v2) b2(v2, v1); \
    b2(v3, v4): v5, v6 = pair; v7, v8 = pair; ret } \
    => func { b0(): v0 = const -3; cbr v0 b2(v0, v0) b1(); b1(): sink v0; v1 = const 0; v2 = add v1 v1; print v2; cbr v1 b2(v1, v2) b2(v2, v1); \
        b2(v3, v4): v5 = const -3; v6 = const -3; v7, v8 = pair; v9, v10 = pair; ret }
random 16 -- U blocks=3 constants=1 others=4 func { b0(v0, v1): v2 = const 0; box { b0(): v3 = add v1 v1; cbr v0 b0() b0() }; fork v0 b2 b2; b1(v4): v5 = div v4 v2; v6 = const -3; br b1(v0); \
    b2(): v7 = add v2 v1; ret v7 } \
    => func { b0(v0, v1): v2 = const 0; box { b0(): v3 = add v1 v1; cbr v0 b0() b0() }; fork v0 b2 b2; b1(v4): v5 = div v4 v2; v6 = const -3; br b1(v0); \
        b2(): v7 = add v2 v1; ret v7 }
random 17 -- C blocks=2 constants=3 others=5 func { b0(v0, v1): v2 = const 1; cbr v2 b1(v2, v1) b1(v2, v0); b1(v3, v4): print v3; v5 = const -3; v6 = add v4 v3; v7 = mul v6 v4; ret v7 } \
    => func { b0(v0, v1): v2 = const 1; cbr v2 b1(v2, v1) b1(v2, v0); b1(v3, v4): v5 = const 1; print v5; v6 = const -3; v7 = add v4 v5; v8 = mul v7 v4; \
        ret v8 }
random 18 -- C blocks=2 constants=2 others=4 func { b0(v0): v1, v2 = pair; v3 = const 0; br b2(v3); b1(v4): v5 = const 1; print v3; br b1(v5); b2(v6): v7 = div v6 v6; ret v6 } \
    => func { b0(v0): v1, v2 = pair; v3 = const 0; br b2(v3); b1(v4): v5 = const 1; print v3; br b1(v5); b2(v6): v7 = const 0; v8 = div v7 v7; ret v7 }
random 19 -- C blocks=2 constants=3 others=6 func { b0(v0, v1): v2 = const 0; v3 = const -3; sink; v4 = mul v2 v2; cbr v2 b2(v1, v1, v0) b2(v1, v0, v3); \
    b1(): v5 = const 0; v6 = const 0; v7 = const -1; cbr v2 b1() b1(); b2(v8, v9, v10): v11 = add v9 v9; br b2(v2, v11, v11) } \
    => func { b0(v0, v1): v2 = const 0; v3 = const -3; sink; v4 = const 0; v5 = mul v2 v2; cbr v2 b2(v1, v1, v0) b2(v1, v0, v3); \
        b1(): v6 = const 0; v7 = const 0; v8 = const -1; cbr v2 b1() b1(); b2(v9, v10, v11): v12 = add v10 v10; br b2(v2, v12, v12) }
random 20 -- C blocks=2 constants=5 others=2 func { b0(v0, v1): v2 = const 3; v3 = const 2; v4 = const 0; br b1(v3); b1(v5): v6 = div v5 v5; print v6; ret v6 } \
    => func { b0(v0, v1): v2 = const 3; v3 = const 2; v4 = const 0; br b1(v3); b1(v5): v6 = const 2; v7 = const 1; v8 = div v6 v6; print v7; ret v7 }
random 21 -- U blocks=2 constants=3 others=5 func { b0(v0, v1): v2 = add v0 v1; v3 = div v2 v1; v4 = mul v1 v2; v5 = const 9223372036854775807; cbr v5 b1() b1(); \
    b1(): v6 = const 2; v7 = const -1; ret v7 } \
    => func { b0(v0, v1): v2 = add v0 v1; v3 = div v2 v1; v4 = mul v1 v2; v5 = const 9223372036854775807; cbr v5 b1() b1(); \
        b1(): v6 = const 2; v7 = const -1; ret v7 }
random 22 -- C blocks=2 constants=4 others=0 func { b0(): v0 = const -3; sink v0 v0 v0; cbr v0 b3(v0, v0) b2(v0); b1(v1, v2): v3 = div v2 v2; print v2; cbr v3 b1(v3, v2) b2(v2); \
    b2(v4): sink v4 v0; br b3(v4, v0); b3(v5, v6): v7 = add v5 v5; ret } \
    => func { b0(): v0 = const -3; sink v0 v0 v0; cbr v0 b3(v0, v0) b2(v0); b1(v1, v2): v3 = div v2 v2; print v2; cbr v3 b1(v3, v2) b2(v2); \
        b2(v4): sink v4 v0; br b3(v4, v0); b3(v5, v6): v7 = const -3; v8 = const -3; v9 = const -6; v10 = add v8 v8; ret }
random 23 -- C blocks=7 constants=5 others=7 func { b0(): v0, v1 = pair; box { b0(): print v1; ret }; br b1(v0, v1); b1(v2, v3): box { b0(v4): box { b0(): v5 = const 7; br b1(v5); \
    b1(v6): print v6; ret }; ret }; v7 = const 0; cbr v7 b1(v3, v7) b2(v3); b2(v8): print v8; v9 = const 1; v10 = add v8 v9; v11 = const 0; ret v11 } \
    => func { b0(): v0, v1 = pair; box { b0(): print v1; ret }; br b1(v0, v1); b1(v2, v3): box { b0(v4): box { b0(): v5 = const 7; br b1(v5); \
        b1(v6): v7 = const 7; print v7; ret }; ret }; v8 = const 0; cbr v8 b1(v3, v8) b2(v3); \
        b2(v9): print v9; v10 = const 1; v11 = add v9 v10; v12 = const 0; ret v12 }
random 24 -- C blocks=3 constants=2 others=7 func { b0(): v0 = const 1; sink v0 v0; v1, v2 = pair; cbr v2 b3(v1, v0, v1) b2(v2); b1(v3, v4): v5, v6 = pair; v7 = const 2; br b3(v3, v0, v5); \
    b2(v8): v9 = mul v2 v8; br b2(v9); b3(v10, v11, v12): v13 = mul v12 v12; sink; ret v11 } \
    => func { b0(): v0 = const 1; sink v0 v0; v1, v2 = pair; cbr v2 b3(v1, v0, v1) b2(v2); b1(v3, v4): v5, v6 = pair; v7 = const 2; br b3(v3, v0, v5); \
        b2(v8): v9 = mul v2 v8; br b2(v9); b3(v10, v11, v12): v13 = const 1; v14 = mul v12 v12; sink; ret v13 }
random 25 -- C blocks=4 constants=5 others=9 func { b0(): v0, v1 = pair; v2 = add v0 v1; br b2(v0, v0); b1(v3, v4, v5): v6 = const -3; fork v4 b2 b2; \
    b2(v7, v8): box { b0(): v9 = read; v10 = const 2; v11, v12 = pair; ret }; v13 = const -3; cbr v13 b1(v13, v13, v1) b2(v8, v8) } \
    => func { b0(): v0, v1 = pair; v2 = add v0 v1; br b2(v0, v0); b1(v3, v4, v5): v6 = const -3; v7 = const -3; v8 = const -3; fork v6 b2 b2; \
        b2(v9, v10): box { b0(): v11 = read; v12 = const 2; v13, v14 = pair; ret }; v15 = const -3; cbr v15 b1(v15, v15, v1) b2(v10, v10) }
random 26 -- U blocks=3 constants=2 others=6 func { b0(v0, v1): v2 = const -9223372036854775808; v3 = div v2 v1; v4 = const -1; br b1(); \
    b1(): box { b0(): v5 = mul v4 v0; ret }; v6 = add v2 v1; v7 = add v6 v3; ret v3; b2(): v8 = add v3 v0; print v8; v9 = add v4 v8; ret v2 } \
    => func { b0(v0, v1): v2 = const -9223372036854775808; v3 = div v2 v1; v4 = const -1; br b1(); \
        b1(): box { b0(): v5 = mul v4 v0; ret }; v6 = add v2 v1; v7 = add v6 v3; ret v3; b2(): v8 = add v3 v0; print v8; v9 = add v4 v8; ret v2 }
random 27 -- C blocks=2 constants=6 others=2 func { b0(): v0 = const 9223372036854775807; print v0; br b3(v0, v0, v0); \
    b1(v1, v2): v3 = add v2 v2; v4 = div v1 v1; box { b0(v5): print v5; print v5; ret }; v6, v7 = pair; br b3(v6, v1, v2); \
    b2(): print v0; v8 = mul v0 v0; br b3(v8, v0, v8); b3(v9, v10, v11): v12, v13 = pair; v14 = div v11 v9; v15 = const 0; ret v11 } \
    => func { b0(): v0 = const 9223372036854775807; print v0; br b3(v0, v0, v0); \
        b1(v1, v2): v3 = add v2 v2; v4 = div v1 v1; box { b0(v5): print v5; print v5; ret }; v6, v7 = pair; br b3(v6, v1, v2); \
        b2(): print v0; v8 = mul v0 v0; br b3(v8, v0, v8); b3(v9, v10, v11): v12 = const 9223372036854775807; v13 = const 9223372036854775807; \
        v14 = const 9223372036854775807; v15, v16 = pair; v17 = const 1; v18 = div v12 v14; v19 = const 0; ret v12 }
random 28 -- C blocks=4 constants=5 others=8 func { b0(v0, v1): v2 = add v1 v0; box { b0(v3): v4 = read; v5 = add v3 v3; ret }; cbr v2 b1() b1(); \
    b1(): v6 = const 1; v7 = const -3; br b2(v6, v6, v2); b2(v8, v9, v10): v11 = const -9223372036854775808; v12 = div v9 v2; cbr v8 b1() b2(v8, v12, v9) } \
    => func { b0(v0, v1): v2 = add v1 v0; box { b0(v3): v4 = read; v5 = add v3 v3; ret }; cbr v2 b1() b1(); \
        b1(): v6 = const 1; v7 = const -3; br b2(v6, v6, v2); b2(v8, v9, v10): v11 = const 1; v12 = const 1; v13 = const -9223372036854775808; \
        v14 = div v11 v2; cbr v12 b1() b2(v12, v14, v11) }
random 29 -- C blocks=3 constants=4 others=0 func { b0(): scope { b0(): v0 = const 0; v1 = add v0 v0; br b1(v1, v1); b1(v2, v3): sink v3; cbr v3 b1(v3, v3) b1(v3, v1); \
    b2(): v4 = mul v0 v1; br b2() }; ret; b1(): v5, v6 = pair; v7 = const 3; ret } \
    => func { b0(): scope { b0(): v0 = const 0; v1 = const 0; v2 = add v0 v0; br b1(v1, v1); \
        b1(v3, v4): v5 = const 0; v6 = const 0; sink v5; cbr v5 b1(v5, v5) b1(v5, v1); b2(): v7 = mul v0 v1; br b2() }; ret; \
        b1(): v8, v9 = pair; v10 = const 3; ret }
random 30 -- C blocks=3 constants=8 others=1 func { b0(): v0 = const 0; v1 = const -3; br b1(v1); b1(v2): v3 = const 0; v4 = const 0; cbr v2 b1(v0) b2(v3); \
    b2(v5): v6 = const 0; v7 = const 0; v8 = add v1 v7; ret v8 } \
    => func { b0(): v0 = const 0; v1 = const -3; br b1(v1); b1(v2): v3 = const 0; v4 = const 0; cbr v2 b1(v0) b2(v3); \
        b2(v5): v6 = const 0; v7 = const 0; v8 = const 0; v9 = const -3; v10 = add v1 v8; ret v9 }
random 31 -- U blocks=3 constants=0 others=7 func { b0(v0): v1 = div v0 v0; v2 = div v0 v1; fork v2 b1 b1; b1(v3, v4, v5): v6 = mul v4 v4; box { b0(): ret }; print v2; ret v5 } \
    => func { b0(v0): v1 = div v0 v0; v2 = div v0 v1; fork v2 b1 b1; b1(v3, v4, v5): v6 = mul v4 v4; box { b0(): ret }; print v2; ret v5 }
random 32 -- C blocks=4 constants=6 others=8 func { b0(v0, v1): v2 = div v0 v0; v3 = add v1 v0; cbr v2 b1() b1(); \
    b1(): v4 = add v3 v2; v5 = const -1; box { b0(v6): v7 = const 7; v8 = const 7; v9 = const 0; br b1(v8, v7, v4); \
    b1(v10, v11, v12): v13 = add v12 v11; ret }; br b1() } \
    => func { b0(v0, v1): v2 = div v0 v0; v3 = add v1 v0; cbr v2 b1() b1(); \
        b1(): v4 = add v3 v2; v5 = const -1; box { b0(v6): v7 = const 7; v8 = const 7; v9 = const 0; br b1(v8, v7, v4); \
        b1(v10, v11, v12): v13 = const 7; v14 = const 7; v15 = add v12 v13; ret }; br b1() }
random 33 -- C blocks=2 constants=4 others=4 func { b0(v0, v1): v2 = const -3; v3 = const -3; br b1(v1, v3, v2); b1(v4, v5, v6): v7 = div v1 v6; sink v2 v7; ret v7 } \
    => func { b0(v0, v1): v2 = const -3; v3 = const -3; br b1(v1, v3, v2); b1(v4, v5, v6): v7 = const -3; v8 = const -3; v9 = div v1 v7; sink v2 v9; ret v9 }
random 34 -- C blocks=2 constants=2 others=8 func { b0(v0, v1): sink v0 v0; v2 = add v1 v0; v3 = add v2 v2; v4 = mul v2 v1; br b3(v4, v4, v4); \
    b1(): v5 = mul v0 v4; v6 = div v5 v5; box { b0(): print v6; v7, v8 = pair; ret }; cbr v5 b2() b1(); b2(): sink v2 v1; v9 = const 1; br b2(); \
    b3(v10, v11, v12): v13 = const 0; v14 = mul v10 v13; print v10; ret v2 } \
    => func { b0(v0, v1): sink v0 v0; v2 = add v1 v0; v3 = add v2 v2; v4 = mul v2 v1; br b3(v4, v4, v4); \
        b1(): v5 = mul v0 v4; v6 = div v5 v5; box { b0(): print v6; v7, v8 = pair; ret }; cbr v5 b2() b1(); b2(): sink v2 v1; v9 = const 1; br b2(); \
        b3(v10, v11, v12): v13 = const 0; v14 = const 0; v15 = mul v10 v13; print v10; ret v2 }
random 35 -- C blocks=2 constants=2 others=6 func { b0(v0): v1 = const 0; cbr v1 b2(v1, v1) b2(v1, v0); b1(v2, v3, v4): v5 = read; cbr v2 b1(v2, v1, v1) b2(v3, v4); \
    b2(v6, v7): v8 = read; v9 = read; v10, v11 = pair; ret v9 } \
    => func { b0(v0): v1 = const 0; cbr v1 b2(v1, v1) b2(v1, v0); b1(v2, v3, v4): v5 = read; cbr v2 b1(v2, v1, v1) b2(v3, v4); \
        b2(v6, v7): v8 = const 0; v9 = read; v10 = read; v11, v12 = pair; ret v10 }
random 36 -- U blocks=2 constants=1 others=1 func { b0(v0): print v0; cbr v0 b1() b1(); b1(): v1 = const 0; ret } => func { b0(v0): print v0; cbr v0 b1() b1(); b1(): v1 = const 0; ret }
random 37 -- C blocks=4 constants=9 others=0 func { b0(): v0 = const 0; cbr v0 b1(v0) b1(v0); b1(v1): print v1; v2 = const 0; v3 = add v2 v1; scope v1 v1 { b0(v4, v5): v6 = add v5 v2; br \
    b1(v2); b1(v7): print v7; v8 = const 0; print v5; cbr v6 b1(v8) b1(v7) }; cbr v1 b1(v1) b1(v0) } \
    => func { b0(): v0 = const 0; cbr v0 b1(v0) b1(v0); b1(v1): v2 = const 0; print v2; v3 = const 0; v4 = const 0; v5 = add v3 v2; scope v2 v2 { \
        b0(v6, v7): v8 = const 0; v9 = const 0; v10 = const 0; v11 = add v8 v3; br b1(v3); b1(v12): v13 = const 0; print v13; v14 = const 0; print v8; \
        cbr v10 b1(v14) b1(v13) }; cbr v2 b1(v2) b1(v0) }
random 38 -- C blocks=3 constants=4 others=6 func { b0(v0): scope v0 v0 { b0(v1, v2): v3 = const 0; v4, v5 = pair; br b0(v3, v4) }; v6 = const 0; br b1(v0, v6); \
    b1(v7, v8): v9 = const 3; ret v8 } \
    => func { b0(v0): scope v0 v0 { b0(v1, v2): v3 = const 0; v4, v5 = pair; br b0(v3, v4) }; v6 = const 0; br b1(v0, v6); \
        b1(v7, v8): v9 = const 0; v10 = const 3; ret v9 }
random 39 -- C blocks=3 constants=3 others=0 func { b0(): v0 = const 2; br b3(v0); b1(): print v0; sink v0 v0; cbr v0 b1() b2(v0); b2(v1): print v1; sink; v2 = const 0; cbr v2 b3(v1) b3(v1); \
    b3(v3): v4 = mul v3 v0; print v4; print v4; br b1() } \
    => func { b0(): v0 = const 2; br b3(v0); b1(): print v0; sink v0 v0; cbr v0 b1() b2(v0); b2(v1): print v1; sink; v2 = const 0; cbr v2 b3(v1) b3(v1); \
        b3(v3): v4 = const 2; v5 = const 4; v6 = mul v4 v0; print v5; print v5; br b1() }
random 40 -- C blocks=5 constants=4 others=9 func { b0(v0, v1): v2 = mul v1 v0; v3 = const 7; v4 = const 7; cbr v2 b2() b1(v2); \
    b1(v5): box { b0(): v6 = const 0; v7 = add v6 v6; cbr v6 b1(v6, v6) b1(v6, v7); b1(v8, v9): v10 = add v9 v6; br b1(v3, v8) }; sink v4 v5; br b1(v5); \
    b2(): v11 = read; v12 = mul v11 v3; cbr v11 b1(v12) b1(v12) } \
    => func { b0(v0, v1): v2 = mul v1 v0; v3 = const 7; v4 = const 7; cbr v2 b2() b1(v2); \
        b1(v5): box { b0(): v6 = const 0; v7 = const 0; v8 = add v6 v6; cbr v6 b1(v6, v6) b1(v6, v7); \
        b1(v9, v10): v11 = add v10 v6; br b1(v3, v9) }; sink v4 v5; br b1(v5); b2(): v12 = read; v13 = mul v12 v3; cbr v12 b1(v13) b1(v13) }
random 41 -- U blocks=4 constants=1 others=12 func { b0(): sink; v0 = const 7; v1, v2 = pair; br b2(v2, v1, v1); b1(v3): v4 = div v3 v3; v5 = const 1; br b1(v5); \
    b2(v6, v7, v8): print v1; scope { b0(v9): sink v0 v9 v9; sink; v10 = add v2 v9; br b0(v9) }; v11 = div v6 v7; sink v6; br b3(v8, v7, v7); \
    b3(v12, v13, v14): v15 = read; ret v2 } \
    => func { b0(): sink; v0 = const 7; v1, v2 = pair; br b2(v2, v1, v1); b1(v3): v4 = div v3 v3; v5 = const 1; br b1(v5); \
        b2(v6, v7, v8): print v1; scope { b0(v9): sink v0 v9 v9; sink; v10 = add v2 v9; br b0(v9) }; v11 = div v6 v7; sink v6; br b3(v8, v7, v7); \
        b3(v12, v13, v14): v15 = read; ret v2 }
random 42 -- C blocks=4 constants=6 others=3 func { b0(v0): v1 = add v0 v0; v2 = const 0; scope { b0(): v3 = mul v2 v0; scope v3 v3 { b0(v4): v5 = add v3 v4; ret }; cbr v2 b0() b0() }; br \
    b3(v2, v2); b1(v6, v7): v8 = const 0; v9, v10 = pair; ret v8; b2(): v11 = mul v1 v1; v12 = const 2; v13 = add v11 v11; ret v11; b3(v14, v15): v16 \
    = add v0 v15; ret } \
    => func { b0(v0): v1 = add v0 v0; v2 = const 0; scope { b0(): v3 = const 0; v4 = mul v2 v0; scope v3 v3 { b0(v5): v6 = const 0; v7 = const 0; v8 = \
        add v3 v6; ret }; cbr v2 b0() b0() }; br b3(v2, v2); b1(v9, v10): v11 = const 0; v12, v13 = pair; ret v11; b2(): v14 = mul v1 v1; v15 = const \
        2; v16 = add v14 v14; ret v14; b3(v17, v18): v19 = const 0; v20 = const 0; v21 = add v0 v19; ret }
random 43 -- C blocks=2 constants=3 others=3 func { b0(): sink; v0 = const 0; cbr v0 b1(v0, v0, v0) b1(v0, v0, v0); b1(v1, v2, v3): print v3; v4 = read; sink; v5 = add v4 v3; br b1(v1, v4, v1) } \
    => func { b0(): sink; v0 = const 0; cbr v0 b1(v0, v0, v0) b1(v0, v0, v0); \
        b1(v1, v2, v3): v4 = const 0; v5 = const 0; print v4; v6 = read; sink; v7 = add v6 v4; br b1(v5, v6, v5) }
random 44 -- C blocks=2 constants=2 others=6 func { b0(v0): v1 = const -3; v2, v3 = pair; br b2(v1, v3, v3); b1(): print v1; sink; cbr v1 b1() b2(v2, v3, v3); \
    b2(v4, v5, v6): v7 = add v5 v6; ret v4 } \
    => func { b0(v0): v1 = const -3; v2, v3 = pair; br b2(v1, v3, v3); b1(): print v1; sink; cbr v1 b1() b2(v2, v3, v3); \
        b2(v4, v5, v6): v7 = const -3; v8 = add v5 v6; ret v7 }
random 45 -- C blocks=6 constants=3 others=6 func { b0(v0, v1): sink; cbr v1 b3() b3(); b1(): sink v0; v2 = const 1; box { b0(v3): sink; v4 = div v3 v3; cbr v4 b1() b1(); \
    b1(): ret }; v5 = mul v2 v2; fork v2 b1 b2; b2(): v6 = const 1; ret; b3(): v7 = add v0 v0; print v7; v8 = add v7 v7; br b1() } \
    => func { b0(v0, v1): sink; cbr v1 b3() b3(); b1(): sink v0; v2 = const 1; box { b0(v3): sink; v4 = div v3 v3; cbr v4 b1() b1(); \
        b1(): ret }; v5 = const 1; v6 = mul v2 v2; fork v2 b1 b2; b2(): v7 = const 1; ret; b3(): v8 = add v0 v0; print v8; v9 = add v8 v8; br b1() }
random 46 -- U blocks=3 constants=3 others=3 func { b0(v0): v1 = add v0 v0; v2 = const 0; cbr v2 b2() b1(v0); b1(v3): br b2(); b2(): v4 = const 0; v5 = const 0; ret } \
    => func { b0(v0): v1 = add v0 v0; v2 = const 0; cbr v2 b2() b1(v0); b1(v3): br b2(); b2(): v4 = const 0; v5 = const 0; ret }
random 47 -- C blocks=4 constants=4 others=4 func { b0(): scope { b0(): v0 = const 0; cbr v0 b1(v0, v0, v0) b1(v0, v0, v0); b1(v1, v2, v3): ret }; v4, v5 = pair; br b1(v4); \
    b1(v6): v7 = div v6 v6; sink v6 v7; ret v6 } \
    => func { b0(): scope { b0(): v0 = const 0; cbr v0 b1(v0, v0, v0) b1(v0, v0, v0); \
        b1(v1, v2, v3): v4 = const 0; v5 = const 0; v6 = const 0; ret }; v7, v8 = pair; br b1(v7); b1(v9): v10 = div v9 v9; sink v9 v10; ret v9 }
random 48 -- C blocks=3 constants=6 others=4 func { b0(): v0 = const 1; cbr v0 b1(v0, v0) b2(v0, v0, v0); b1(v1, v2): v3 = const 5; v4 = add v3 v3; cbr v1 b2(v4, v1, v4) b2(v3, v0, v1); \
    b2(v5, v6, v7): v8, v9 = pair; sink v6 v7 v8; ret v7 } \
    => func { b0(): v0 = const 1; cbr v0 b1(v0, v0) b2(v0, v0, v0); b1(v1, v2): v3 = const 1; v4 = const 1; v5 = const 5; v6 = const 10; v7 = add v5 v5; \
        cbr v4 b2(v6, v4, v6) b2(v5, v0, v4); b2(v8, v9, v10): v11 = const 1; v12, v13 = pair; sink v11 v10 v12; ret v10 }
random 49 -- C blocks=5 constants=8 others=3 func { b0(): v0 = const -1; sink; br b2(v0); b1(v1, v2): sink v2 v1; cbr v1 b2(v2) b2(v1); b2(v3): scope v3 v3 { b0(v4, v5): v6 = const 7; \
    fork v4 b1 b1; b1(v7): sink; v8, v9 = pair; cbr v9 b1(v0) b2(); b2(): v10 = add v3 v6; ret }; v11 = div v3 v3; v12 = const 0; ret v11 } \
    => func { b0(): v0 = const -1; sink; br b2(v0); b1(v1, v2): sink v2 v1; cbr v1 b2(v2) b2(v1); b2(v3): v4 = const -1; scope v4 v4 { b0(v5, v6): v7 \
        = const -1; v8 = const -1; v9 = const 7; fork v8 b1 b1; b1(v10): sink; v11, v12 = pair; cbr v12 b1(v0) b2(); b2(): v13 = const 6; v14 = add v4 \
        v9; ret }; v15 = const 1; v16 = div v4 v4; v17 = const 0; ret v15 }
random 50 -- C blocks=2 constants=3 others=3 func { b0(v0): v1 = const 0; v2 = div v0 v0; v3 = add v0 v2; br b2(v1); b1(v4): v5 = const 1; v6 = const 0; print v6; br b1(v6); \
    b2(v7): v8 = const 0; ret v8 } \
    => func { b0(v0): v1 = const 0; v2 = div v0 v0; v3 = add v0 v2; br b2(v1); b1(v4): v5 = const 1; v6 = const 0; print v6; br b1(v6); \
        b2(v7): v8 = const 0; v9 = const 0; ret v9 }
random 51 -- U blocks=3 constants=0 others=7 func { b0(): sink; v0, v1 = pair; br b2(v1, v1); b1(): v2 = div v0 v1; v3, v4 = pair; v5 = add v2 v2; sink; br b1(); \
    b2(v6, v7): sink; print v6; br b3(v0, v6); b3(v8, v9): v10 = read; print v8; ret } \
    => func { b0(): sink; v0, v1 = pair; br b2(v1, v1); b1(): v2 = div v0 v1; v3, v4 = pair; v5 = add v2 v2; sink; br b1(); \
        b2(v6, v7): sink; print v6; br b3(v0, v6); b3(v8, v9): v10 = read; print v8; ret }
random 52 -- C blocks=6 constants=3 others=10 func { b0(v0): box { b0(v1): v2 = add v1 v0; v3 = read; cbr v1 b0(v1) b0(v2) }; br b1(v0, v0, v0); \
    b1(v4, v5, v6): scope { b0(): v7 = const 0; sink; box { b0(v8): sink v8 v8; v9 = add v8 v8; ret }; br b1(v7, v5); \
    b1(v10, v11): v12 = const 2; ret }; ret; b2(v13): v14, v15 = pair; ret v15; b3(v16, v17): print v0; ret } \
    => func { b0(v0): box { b0(v1): v2 = add v1 v0; v3 = read; cbr v1 b0(v1) b0(v2) }; br b1(v0, v0, v0); \
        b1(v4, v5, v6): scope { b0(): v7 = const 0; sink; box { b0(v8): sink v8 v8; v9 = add v8 v8; ret }; br b1(v7, v5); \
        b1(v10, v11): v12 = const 0; v13 = const 2; ret }; ret; b2(v14): v15, v16 = pair; ret v16; b3(v17, v18): print v0; ret }
random 53 -- C blocks=2 constants=4 others=6 func { b0(v0): v1 = const 1; v2 = add v1 v0; v3 = div v0 v2; v4 = const 1; br b1(v2, v4, v0); \
    b1(v5, v6, v7): sink v6 v5 v7; print v7; v8 = const -3; v9 = mul v8 v2; ret; b2(v10, v11): v12 = const 1; v13 = mul v12 v4; ret v13 } \
    => func { b0(v0): v1 = const 1; v2 = add v1 v0; v3 = div v0 v2; v4 = const 1; br b1(v2, v4, v0); \
        b1(v5, v6, v7): v8 = const 1; sink v8 v5 v7; print v7; v9 = const -3; v10 = mul v9 v2; ret; b2(v11, v12): v13 = const 1; v14 = mul v13 v4; ret v14 }
random 54 -- C blocks=3 constants=5 others=7 func { b0(v0): v1 = const 2; cbr v1 b2(v1) b1(v1, v0, v1); b1(v2, v3, v4): v5 = const -1; v6, v7 = pair; v8 = add v7 v4; v9 = const 1; ret v3; \
    b2(v10): v11 = const 1; cbr v11 b1(v10, v10, v11) b1(v11, v0, v10); b3(v12, v13, v14): sink v14 v12; ret } \
    => func { b0(v0): v1 = const 2; cbr v1 b2(v1) b1(v1, v0, v1); b1(v2, v3, v4): v5 = const -1; v6, v7 = pair; v8 = add v7 v4; v9 = const 1; ret v3; \
        b2(v10): v11 = const 2; v12 = const 1; cbr v12 b1(v11, v11, v12) b1(v12, v0, v11); b3(v13, v14, v15): sink v15 v13; ret }
random 55 -- C blocks=3 constants=5 others=0 func { b0(): v0 = const 2; v1 = const 0; v2 = add v1 v1; cbr v0 b2(v1) b2(v2); \
    b1(): v3 = const -1; scope { b0(v4): v5 = add v4 v4; v6 = mul v4 v4; ret }; v7 = add v3 v3; cbr v7 b1() b2(v0); \
    b2(v8): box { b0(): print v8; v9 = add v1 v1; ret }; ret } \
    => func { b0(): v0 = const 2; v1 = const 0; v2 = const 0; v3 = add v1 v1; cbr v0 b2(v1) b2(v2); \
        b1(): v4 = const -1; scope { b0(v5): v6 = add v5 v5; v7 = mul v5 v5; ret }; v8 = add v4 v4; cbr v8 b1() b2(v0); \
        b2(v9): v10 = const 0; box { b0(): print v10; v11 = const 0; v12 = add v1 v1; ret }; ret }
random 56 -- U blocks=1 constants=0 others=2 func { b0(v0): print v0; v1 = div v0 v0; cbr v0 b0(v1) b0(v1) } => func { b0(v0): print v0; v1 = div v0 v0; cbr v0 b0(v1) b0(v1) }
random 57 -- C blocks=2 constants=3 others=5 func { b0(v0, v1): v2 = const 3; v3 = add v1 v2; v4 = add v2 v3; br b3(v2); \
    b1(): print v1; v5, v6 = pair; scope { b0(v7): v8 = const -3; cbr v8 b1(v7) b1(v0); \
    b1(v9): v10 = mul v9 v9; br b1(v0) }; v11 = add v4 v6; cbr v5 b2() b3(v5); b2(): print v4; print v2; br b1(); \
    b3(v12): v13 = mul v12 v12; v14 = add v13 v3; ret v14 } \
    => func { b0(v0, v1): v2 = const 3; v3 = add v1 v2; v4 = add v2 v3; br b3(v2); \
        b1(): print v1; v5, v6 = pair; scope { b0(v7): v8 = const -3; cbr v8 b1(v7) b1(v0); \
        b1(v9): v10 = mul v9 v9; br b1(v0) }; v11 = add v4 v6; cbr v5 b2() b3(v5); b2(): print v4; print v2; br b1(); \
        b3(v12): v13 = const 3; v14 = const 9; v15 = mul v13 v13; v16 = add v14 v3; ret v16 }
random 58 -- C blocks=6 constants=3 others=11 func { b0(v0, v1): v2 = mul v1 v0; br b1(v2, v0); b1(v3, v4): v5 = const -1; v6 = div v4 v5; cbr v5 b2(v5, v3, v5) b3(); \
    b2(v7, v8, v9): box { b0(): v10, v11 = pair; ret }; v12 = add v7 v8; print v9; cbr v12 b3() b1(v9, v0); \
    b3(): scope { b0(): br b0() }; v13 = mul v1 v0; ret v1 } \
    => func { b0(v0, v1): v2 = mul v1 v0; br b1(v2, v0); b1(v3, v4): v5 = const -1; v6 = div v4 v5; cbr v5 b2(v5, v3, v5) b3(); \
        b2(v7, v8, v9): v10 = const -1; v11 = const -1; box { b0(): v12, v13 = pair; ret }; v14 = add v11 v8; print v10; cbr v14 b3() b1(v10, v0); \
        b3(): scope { b0(): br b0() }; v15 = mul v1 v0; ret v1 }
random 59 -- C blocks=3 constants=6 others=2 func { b0(): v0 = const 2; scope v0 { b0(v1): v2 = const 2; v3, v4 = pair; ret }; v5 = const 2; cbr v0 b2(v0, v0) b2(v5, v5); b1(v6, v7): v8 = \
    div v7 v5; v9 = read; fork v6 b2 b3; b2(v10, v11): sink; cbr v10 b2(v0, v11) b2(v5, v11); b3(v12, v13): v14 = mul v12 v12; v15, v16 = pair; ret \
    v15 } \
    => func { b0(): v0 = const 2; scope v0 { b0(v1): v2 = const 2; v3 = const 2; v4, v5 = pair; ret }; v6 = const 2; cbr v0 b2(v0, v0) b2(v6, v6); \
        b1(v7, v8): v9 = div v8 v6; v10 = read; fork v7 b2 b3; b2(v11, v12): v13 = const 2; v14 = const 2; sink; cbr v14 b2(v0, v13) b2(v6, v13); \
        b3(v15, v16): v17 = mul v15 v15; v18, v19 = pair; ret v18 }
random 60 -- C blocks=2 constants=4 others=5 func { b0(v0): v1 = const 1; v2 = add v1 v0; v3 = div v0 v1; cbr v1 b1(v1, v3, v1) b1(v1, v0, v2); b1(v4, v5, v6): v7 = const 1; v8 = const -3; ret } \
    => func { b0(v0): v1 = const 1; v2 = add v1 v0; v3 = div v0 v1; cbr v1 b1(v1, v3, v1) b1(v1, v0, v2); \
        b1(v4, v5, v6): v7 = const 1; v8 = const 1; v9 = const -3; ret }
random 61 -- U blocks=3 constants=1 others=4 func { b0(): v0, v1 = pair; br b2(); b1(): v2 = add v0 v1; sink v2 v2 v1; ret; b2(): v3 = read; v4 = const 9223372036854775807; cbr v3 b1() b1(); \
    b3(v5, v6): sink v6 v6 v5; v7 = const 0; v8 = add v6 v6; cbr v5 b2() b1() } \
    => func { b0(): v0, v1 = pair; br b2(); b1(): v2 = add v0 v1; sink v2 v2 v1; ret; b2(): v3 = read; v4 = const 9223372036854775807; cbr v3 b1() b1(); \
        b3(v5, v6): sink v6 v6 v5; v7 = const 0; v8 = add v6 v6; cbr v5 b2() b1() }
random 62 -- C blocks=4 constants=4 others=3 func { b0(v0, v1): v2 = const 0; v3 = add v2 v0; box { b0(): v4 = const 2; br b1(v4); b1(v5): ret }; br b1(); b1(): v6 = const -3; ret v6; \
    b2(v7, v8): sink; sink v7; v9 = const 7; v10, v11 = pair; ret; b3(v12, v13): print v0; ret } \
    => func { b0(v0, v1): v2 = const 0; v3 = add v2 v0; box { b0(): v4 = const 2; br b1(v4); b1(v5): v6 = const 2; ret }; br b1(); \
        b1(): v7 = const -3; ret v7; b2(v8, v9): sink; sink v8; v10 = const 7; v11, v12 = pair; ret; b3(v13, v14): print v0; ret }
random 63 -- C blocks=3 constants=5 others=0 func { b0(): v0 = const -3; box { b0(): v1 = const 0; ret }; br b1(v0, v0); b1(v2, v3): v4 = mul v2 v3; ret } \
    => func { b0(): v0 = const -3; box { b0(): v1 = const 0; ret }; br b1(v0, v0); \
        b1(v2, v3): v4 = const -3; v5 = const -3; v6 = const 9; v7 = mul v5 v4; ret }
random 64 -- C blocks=2 constants=3 others=4 func { b0(v0): v1 = const -3; v2 = const -3; cbr v1 b2(v0, v2) b1(); b1(): scope { b0(): v3, v4 = pair; cbr v4 b1(v3, v4) b2(); \
    b1(v5, v6): v7 = div v6 v2; br b1(v5, v7); b2(): v8 = const -1; ret }; ret v1; b2(v9, v10): v11 = add v0 v9; v12 = mul v0 v9; ret } \
    => func { b0(v0): v1 = const -3; v2 = const -3; cbr v1 b2(v0, v2) b1(); b1(): scope { b0(): v3, v4 = pair; cbr v4 b1(v3, v4) b2(); \
        b1(v5, v6): v7 = div v6 v2; br b1(v5, v7); b2(): v8 = const -1; ret }; ret v1; b2(v9, v10): v11 = const -3; v12 = add v0 v9; v13 = mul v0 v9; ret }
random 65 -- C blocks=4 constants=4 others=3 func { b0(v0): v1 = const -1; box { b0(v2): v3 = const 1; print v3; ret }; scope v0 { b0(v4): v5 = const 7; cbr v5 b0(v5) b0(v0) }; print v0; \
    br b1(); b1(): v6 = add v1 v1; ret v6 } \
    => func { b0(v0): v1 = const -1; box { b0(v2): v3 = const 1; print v3; ret }; scope v0 { b0(v4): v5 = const 7; cbr v5 b0(v5) b0(v0) }; print v0; br b1(); \
        b1(): v6 = const -2; v7 = add v1 v1; ret v6 }
random 66 -- U blocks=2 constants=0 others=0 func { b0(): box { b0(): ret }; ret; b1(v0, v1): v2, v3 = pair; cbr v0 b1(v2, v1) b2(v2); b2(v4): sink; v5 = const -3; ret } \
    => func { b0(): box { b0(): ret }; ret; b1(v0, v1): v2, v3 = pair; cbr v0 b1(v2, v1) b2(v2); b2(v4): sink; v5 = const -3; ret }
random 67 -- C blocks=2 constants=6 others=0 func { b0(): v0 = const -3; v1 = const -9223372036854775808; cbr v1 b1(v0, v0) b1(v0, v0); b1(v2, v3): v4 = add v3 v3; v5 = add v4 v4; ret v5 } \
    => func { b0(): v0 = const -3; v1 = const -9223372036854775808; cbr v1 b1(v0, v0) b1(v0, v0); \
        b1(v2, v3): v4 = const -3; v5 = const -3; v6 = const -6; v7 = add v4 v4; v8 = const -12; v9 = add v6 v6; ret v8 }
random 68 -- C blocks=3 constants=4 others=0 func { b0(): box { b0(): v0 = const 0; v1 = add v0 v0; br b1(v0); b1(v2): v3 = const 0; ret }; ret; \
    b1(v4, v5): box { b0(): v6 = mul v5 v4; ret }; v7 = add v4 v4; v8, v9 = pair; v10 = div v9 v5; cbr v4 b1(v4, v5) b1(v8, v5) } \
    => func { b0(): box { b0(): v0 = const 0; v1 = const 0; v2 = add v0 v0; br b1(v0); b1(v3): v4 = const 0; v5 = const 0; ret }; ret; \
        b1(v6, v7): box { b0(): v8 = mul v7 v6; ret }; v9 = add v6 v6; v10, v11 = pair; v12 = div v11 v7; cbr v6 b1(v6, v7) b1(v10, v7) }
random 69 -- C blocks=5 constants=3 others=1 func { b0(): v0 = const -3; box { b0(v1): print v1; ret }; cbr v0 b2() b2(); b1(): sink v0 v0; v2 = const 1; sink v2 v0; br b2(); b2(): v3 = \
    add v0 v0; scope v0 { b0(v4): cbr v3 b1() b1(); b1(): print v4; ret; b2(): box { b0(v5): v6 = const 0; v7 = const 1; cbr v7 b1(v7) b1(v5); b1(v8): \
    ret }; v9 = const 0; ret }; ret v3 } \
    => func { b0(): v0 = const -3; box { b0(v1): print v1; ret }; cbr v0 b2() b2(); b1(): sink v0 v0; v2 = const 1; sink v2 v0; br b2(); b2(): v3 = \
        const -6; v4 = add v0 v0; scope v0 { b0(v5): v6 = const -3; cbr v3 b1() b1(); b1(): print v6; ret; b2(): box { b0(v7): v8 = const 0; v9 = \
        const 1; cbr v9 b1(v9) b1(v7); b1(v10): ret }; v11 = const 0; ret }; ret v3 }
random 70 -- C blocks=2 constants=3 others=2 func { b0(v0): print v0; v1 = const 2; cbr v0 b1(v1, v1) b1(v0, v1); b1(v2, v3): v4 = const 1; sink v4 v2 v2; ret v2 } \
    => func { b0(v0): print v0; v1 = const 2; cbr v0 b1(v1, v1) b1(v0, v1); b1(v2, v3): v4 = const 2; v5 = const 1; sink v5 v2 v2; ret v2 }
random 71 -- C blocks=4 constants=2 others=12 func { b0(v0, v1): v2 = const 0; print v0; br b1(v0); b1(v3): v4 = read; box { b0(): scope v4 v2 { b0(v5, v6): v7 = div v1 v5; v8, v9 = pair; \
    ret }; v10, v11 = pair; v12 = mul v11 v11; ret }; v13 = read; ret v13 } \
    => func { b0(v0, v1): v2 = const 0; print v0; br b1(v0); b1(v3): v4 = read; box { b0(): scope v4 v2 { b0(v5, v6): v7 = const 0; v8 = div v1 v5; \
        v9, v10 = pair; ret }; v11, v12 = pair; v13 = mul v12 v12; ret }; v14 = read; ret v14 }
random 72 -- C blocks=3 constants=4 others=9 func { b0(v0, v1): v2, v3 = pair; v4, v5 = pair; v6 = const 7; print v0; cbr v5 b1(v4) b2(v0, v6); b1(v7): v8 = mul v4 v5; ret; \
    b2(v9, v10): v11 = mul v10 v10; sink; v12 = const 2; ret } \
    => func { b0(v0, v1): v2, v3 = pair; v4, v5 = pair; v6 = const 7; print v0; cbr v5 b1(v4) b2(v0, v6); b1(v7): v8 = mul v4 v5; ret; \
        b2(v9, v10): v11 = const 7; v12 = const 49; v13 = mul v11 v11; sink; v14 = const 2; ret }
random 73 -- C blocks=6 constants=4 others=17 func { b0(v0, v1): v2 = add v0 v0; br b2(v0, v2); b1(v3, v4, v5): v6 = div v0 v2; v7 = add v2 v0; v8 = const 2; \
    scope v3 v4 { b0(v9, v10): br b1(v10, v10, v10); b1(v11, v12, v13): v14 = const 0; ret }; br b2(v7, v8); \
    b2(v15, v16): scope v0 v16 { b0(v17, v18): v19 = add v17 v1; ret }; v20 = const -1; br b1(v1, v16, v20) } \
    => func { b0(v0, v1): v2 = add v0 v0; br b2(v0, v2); b1(v3, v4, v5): v6 = const -1; v7 = div v0 v2; v8 = add v2 v0; v9 = const 2; \
        scope v3 v4 { b0(v10, v11): br b1(v11, v11, v11); b1(v12, v13, v14): v15 = const 0; ret }; br b2(v8, v9); \
        b2(v16, v17): scope v0 v17 { b0(v18, v19): v20 = add v18 v1; ret }; v21 = const -1; br b1(v1, v17, v21) }
random 74 -- C blocks=2 constants=2 others=5 func { b0(v0): print v0; v1 = const 0; v2, v3 = pair; v4 = add v1 v1; cbr v3 b1(v0, v1) b1(v2, v2); \
    b1(v5, v6): sink v5; cbr v6 b1(v4, v5) b1(v5, v5); b2(v7): sink v7 v7; sink v7 v7 v4; br b1(v7, v3) } \
    => func { b0(v0): print v0; v1 = const 0; v2, v3 = pair; v4 = const 0; v5 = add v1 v1; cbr v3 b1(v0, v1) b1(v2, v2); \
        b1(v6, v7): sink v6; cbr v7 b1(v4, v6) b1(v6, v6); b2(v8): sink v8 v8; sink v8 v8 v4; br b1(v8, v3) }
random 75 -- C blocks=4 constants=3 others=14 func { b0(): v0, v1 = pair; v2 = const 0; v3 = add v1 v2; cbr v3 b3() b2(v1, v2, v3); b1(): v4 = div v2 v3; cbr v2 b1() b3(); \
    b2(v5, v6, v7): v8, v9 = pair; print v7; v10, v11 = pair; v12, v13 = pair; cbr v12 b3() b1(); b3(): v14 = const 1; v15, v16 = pair; ret v16 } \
    => func { b0(): v0, v1 = pair; v2 = const 0; v3 = add v1 v2; cbr v3 b3() b2(v1, v2, v3); b1(): v4 = div v2 v3; cbr v2 b1() b3(); \
        b2(v5, v6, v7): v8 = const 0; v9, v10 = pair; print v7; v11, v12 = pair; v13, v14 = pair; cbr v13 b3() b1(); \
        b3(): v15 = const 1; v16, v17 = pair; ret v17 }
random 76 -- U blocks=3 constants=2 others=9 func { b0(): v0 = const 7; v1, v2 = pair; v3 = const 1; v4, v5 = pair; cbr v4 b1() b1(); b1(): v6 = mul v2 v2; v7, v8 = pair; cbr v6 b2() b2(); \
    b2(): v9, v10 = pair; sink; ret v10 } \
    => func { b0(): v0 = const 7; v1, v2 = pair; v3 = const 1; v4, v5 = pair; cbr v4 b1() b1(); b1(): v6 = mul v2 v2; v7, v8 = pair; cbr v6 b2() b2(); \
        b2(): v9, v10 = pair; sink; ret v10 }
random 77 -- C blocks=3 constants=6 others=4 func { b0(v0, v1): v2 = const 2; box { b0(): v3 = read; v4 = const 7; ret }; br b1(v2, v1, v2); \
    b1(v5, v6, v7): v8 = const 2; v9 = add v7 v8; ret v5 } \
    => func { b0(v0, v1): v2 = const 2; box { b0(): v3 = read; v4 = const 7; ret }; br b1(v2, v1, v2); \
        b1(v5, v6, v7): v8 = const 2; v9 = const 2; v10 = const 2; v11 = const 4; v12 = add v8 v10; ret v9 }
random 78 -- C blocks=2 constants=6 others=0 func { b0(): v0 = const 0; v1 = add v0 v0; v2 = add v1 v0; cbr v0 b2(v1, v1) b2(v0, v0); \
    b1(v3): box { b0(v4): v5 = const 7; br b0(v4) }; v6 = const -3; v7 = add v3 v2; v8 = const -9223372036854775808; cbr v3 b2(v3, v8) b1(v3); \
    b2(v9, v10): v11 = const 0; ret } \
    => func { b0(): v0 = const 0; v1 = const 0; v2 = add v0 v0; v3 = const 0; v4 = add v1 v0; cbr v0 b2(v1, v1) b2(v0, v0); \
        b1(v5): box { b0(v6): v7 = const 7; br b0(v6) }; v8 = const -3; v9 = add v5 v3; v10 = const -9223372036854775808; cbr v5 b2(v5, v10) b1(v5); \
        b2(v11, v12): v13 = const 0; v14 = const 0; v15 = const 0; ret }
random 79 -- C blocks=4 constants=8 others=1 func { b0(): v0 = const 0; v1 = add v0 v0; v2 = const 1; sink v1; br b1(v2, v2, v1); \
    b1(v3, v4, v5): scope v5 v4 { b0(): v6 = add v4 v5; cbr v6 b1(v6) b1(v4); b1(v7): cbr v2 b1(v7) b1(v1); b2(v8): br b1(v1) }; v9 = const 1; ret v4 } \
    => func { b0(): v0 = const 0; v1 = const 0; v2 = add v0 v0; v3 = const 1; sink v1; br b1(v3, v3, v1); \
        b1(v4, v5, v6): v7 = const 0; v8 = const 1; v9 = const 1; scope v7 v8 { b0(): v10 = const 1; v11 = add v8 v7; cbr v10 b1(v10) b1(v8); \
        b1(v12): cbr v3 b1(v12) b1(v1); b2(v13): br b1(v1) }; v14 = const 1; ret v8 }
random 80 -- C blocks=6 constants=3 others=13 func { b0(v0, v1): box { b0(): v2, v3 = pair; ret }; cbr v1 b1(v0, v0, v0) b1(v0, v0, v1); \
    b1(v4, v5, v6): v7, v8 = pair; print v6; box { b0(v9): v10 = const -3; v11 = const 2; sink v11 v9 v10; br b1(v11, v9); \
    b1(v12, v13): box { b0(): v14 = add v6 v4; ret }; v15 = add v13 v12; ret }; br b1(v7, v6, v6) } \
    => func { b0(v0, v1): box { b0(): v2, v3 = pair; ret }; cbr v1 b1(v0, v0, v0) b1(v0, v0, v1); \
        b1(v4, v5, v6): v7, v8 = pair; print v6; box { b0(v9): v10 = const -3; v11 = const 2; sink v11 v9 v10; br b1(v11, v9); \
        b1(v12, v13): v14 = const 2; box { b0(): v15 = add v6 v4; ret }; v16 = add v13 v14; ret }; br b1(v7, v6, v6) }
random 81 -- U blocks=1 constants=0 others=0 func { b0(): sink; sink; ret; b1(v0, v1): v2 = mul v1 v1; scope { b0(): v3, v4 = pair; cbr v0 b1() b1(); \
    b1(): box { b0(v5): v6 = div v5 v4; v7 = add v1 v5; cbr v5 b0(v5) b0(v6) }; ret }; v8 = add v0 v0; ret v1 } \
    => func { b0(): sink; sink; ret; b1(v0, v1): v2 = mul v1 v1; scope { b0(): v3, v4 = pair; cbr v0 b1() b1(); \
        b1(): box { b0(v5): v6 = div v5 v4; v7 = add v1 v5; cbr v5 b0(v5) b0(v6) }; ret }; v8 = add v0 v0; ret v1 }
random 82 -- C blocks=3 constants=2 others=6 func { b0(v0): v1 = add v0 v0; print v1; scope { b0(): v2 = const 9223372036854775807; cbr v2 b1(v2, v2) b1(v2, v0); \
    b1(v3, v4): v5 = add v4 v3; v6 = div v1 v2; ret }; v7 = div v1 v0; ret } \
    => func { b0(v0): v1 = add v0 v0; print v1; scope { b0(): v2 = const 9223372036854775807; cbr v2 b1(v2, v2) b1(v2, v0); \
        b1(v3, v4): v5 = const 9223372036854775807; v6 = add v4 v5; v7 = div v1 v2; ret }; v8 = div v1 v0; ret }
random 83 -- C blocks=3 constants=8 others=3 func { b0(v0): v1, v2 = pair; v3 = const 7; v4 = div v3 v3; v5 = const 1; br b2(v5, v3); b1(): v6 = add v3 v2; sink; br b1(); b2(v7, v8): sink \
    v8 v7 v8; scope v8 v3 { b0(v9, v10): v11 = mul v9 v9; ret }; ret v8 } \
    => func { b0(v0): v1, v2 = pair; v3 = const 7; v4 = const 1; v5 = div v3 v3; v6 = const 1; br b2(v6, v3); b1(): v7 = add v3 v2; sink; br b1(); \
        b2(v8, v9): v10 = const 7; v11 = const 1; sink v10 v11 v10; scope v10 v3 { b0(v12, v13): v14 = const 7; v15 = const 7; v16 = const 49; v17 = \
        mul v15 v15; ret }; ret v10 }
random 84 -- C blocks=4 constants=10 others=0 func { b0(): v0 = const -3; cbr v0 b1(v0, v0, v0) b1(v0, v0, v0); b1(v1, v2, v3): scope { b0(): cbr v1 b2(v2, v3, v3) b2(v0, v2, v1); \
    b1(v4): v5, v6 = pair; cbr v6 b1(v4) b2(v5, v6, v6); b2(v7, v8, v9): v10 = div v3 v7; v11 = add v7 v9; ret }; v12 = const 7; ret v1 } \
    => func { b0(): v0 = const -3; cbr v0 b1(v0, v0, v0) b1(v0, v0, v0); b1(v1, v2, v3): v4 = const -3; v5 = const -3; v6 = const -3; \
        scope { b0(): cbr v6 b2(v5, v4, v4) b2(v0, v5, v6); b1(v7): v8, v9 = pair; cbr v9 b1(v7) b2(v8, v9, v9); \
        b2(v10, v11, v12): v13 = const -3; v14 = const -3; v15 = const -3; v16 = const 1; v17 = div v4 v15; v18 = const -6; v19 = add v15 v13; ret }; \
        v20 = const 7; ret v6 }
random 85 -- C blocks=4 constants=5 others=7 func { b0(v0): v1 = div v0 v0; scope { b0(): v2 = const 0; v3 = const 0; v4 = add v2 v2; ret }; br b1(v0, v0, v0); \
    b1(v5, v6, v7): print v5; cbr v7 b2(v7, v5) b2(v7, v7); b2(v8, v9): v10 = const 2; v11 = const 2; print v10; ret v11 } \
    => func { b0(v0): v1 = div v0 v0; scope { b0(): v2 = const 0; v3 = const 0; v4 = const 0; v5 = add v2 v2; ret }; br b1(v0, v0, v0); \
        b1(v6, v7, v8): print v6; cbr v8 b2(v8, v6) b2(v8, v8); b2(v9, v10): v11 = const 2; v12 = const 2; print v11; ret v12 }
random 86 -- U blocks=1 constants=0 others=1 func { b0(v0): print v0; sink v0 v0 v0; ret } => func { b0(v0): print v0; sink v0 v0 v0; ret }
random 87 -- C blocks=3 constants=5 others=5 func { b0(): v0 = const 0; v1 = add v0 v0; v2 = const -3; cbr v0 b2(v1, v0) b2(v2, v1); b1(): v3 = const 7; sink v3 v3; cbr v3 b1() b2(v3, v1); \
    b2(v4, v5): print v4; v6 = add v2 v4; scope v5 v6 { b0(v7, v8): v9 = mul v7 v8; v10 = const 7; br b0(v8, v8) }; ret v5 } \
    => func { b0(): v0 = const 0; v1 = const 0; v2 = add v0 v0; v3 = const -3; cbr v0 b2(v1, v0) b2(v3, v1); \
        b1(): v4 = const 7; sink v4 v4; cbr v4 b1() b2(v4, v1); b2(v5, v6): v7 = const 0; print v5; v8 = add v3 v5; \
        scope v7 v8 { b0(v9, v10): v11 = mul v9 v10; v12 = const 7; br b0(v10, v10) }; ret v7 }
random 88 -- C blocks=5 constants=4 others=10 func { b0(v0, v1): v2 = add v0 v0; v3 = div v1 v1; cbr v0 b1() b1(); b1(): v4 = const 0; box { b0(): v5 = read; v6 = add v5 v0; br b1(v1, v4, \
    v5); b1(v7, v8, v9): v10 = add v7 v5; scope v7 v8 { b0(v11, v12): v13 = const 5; ret }; ret }; sink v4; sink v0 v4; ret v4 } \
    => func { b0(v0, v1): v2 = add v0 v0; v3 = div v1 v1; cbr v0 b1() b1(); b1(): v4 = const 0; box { b0(): v5 = read; v6 = add v5 v0; br b1(v1, v4, \
        v5); b1(v7, v8, v9): v10 = const 0; v11 = add v7 v5; scope v7 v10 { b0(v12, v13): v14 = const 0; v15 = const 5; ret }; ret }; sink v4; sink v0 \
        v4; ret v4 }
random 89 -- C blocks=5 constants=4 others=0 func { b0(): box { b0(): box { b0(): v0 = const 2; v1 = mul v0 v0; cbr v1 b1(v1) b1(v1); \
    b1(v2): print v2; v3 = const 2; print v3; br b1(v2) }; sink; br b1(); b1(): ret }; sink; ret; b1(v4, v5): print v5; cbr v5 b1(v4, v5) b1(v4, v5); \
    b2(v6, v7): sink; v8 = add v6 v7; ret v7 } \
    => func { b0(): box { b0(): box { b0(): v0 = const 2; v1 = const 4; v2 = mul v0 v0; cbr v1 b1(v1) b1(v1); \
        b1(v3): v4 = const 4; print v4; v5 = const 2; print v5; br b1(v4) }; sink; br b1(); b1(): ret }; sink; ret; \
        b1(v6, v7): print v7; cbr v7 b1(v6, v7) b1(v6, v7); b2(v8, v9): sink; v10 = add v8 v9; ret v9 }
random 90 -- C blocks=2 constants=4 others=2 func { b0(v0): v1 = const 2; cbr v1 b2(v1) b1(v0); b1(v2): print v2; v3 = add v0 v2; ret v0; \
    b2(v4): v5 = div v1 v4; v6 = const -1; v7 = div v0 v4; ret v5 } \
    => func { b0(v0): v1 = const 2; cbr v1 b2(v1) b1(v0); b1(v2): print v2; v3 = add v0 v2; ret v0; \
        b2(v4): v5 = const 2; v6 = const 1; v7 = div v1 v5; v8 = const -1; v9 = div v0 v5; ret v6 }
random 91 -- U blocks=2 constants=3 others=2 func { b0(v0, v1): box { b0(): v2 = const -3; v3 = const 0; ret }; v4 = const 7; br b0(v4, v0) } \
    => func { b0(v0, v1): box { b0(): v2 = const -3; v3 = const 0; ret }; v4 = const 7; br b0(v4, v0) }
random 92 -- C blocks=3 constants=3 others=4 func { b0(v0): v1 = const -1; v2 = mul v0 v0; box { b0(v3): v4 = add v3 v3; sink; ret }; br b1(v1); b1(v5): v6 = const 1; print v6; ret v5 } \
    => func { b0(v0): v1 = const -1; v2 = mul v0 v0; box { b0(v3): v4 = add v3 v3; sink; ret }; br b1(v1); \
        b1(v5): v6 = const -1; v7 = const 1; print v7; ret v6 }
random 93 -- C blocks=4 constants=4 others=9 func { b0(v0): scope v0 { b0(): v1 = const 1; br b1(v1, v0); b1(v2, v3): v4 = const 2; v5 = read; br b1(v5, v3); \
    b2(): v6 = div v1 v1; ret }; v7 = const 7; v8 = read; br b1(v8, v7); b1(v9, v10): v11 = read; v12 = add v10 v11; v13 = read; ret } \
    => func { b0(v0): scope v0 { b0(): v1 = const 1; br b1(v1, v0); b1(v2, v3): v4 = const 2; v5 = read; br b1(v5, v3); \
        b2(): v6 = div v1 v1; ret }; v7 = const 7; v8 = read; br b1(v8, v7); b1(v9, v10): v11 = const 7; v12 = read; v13 = add v11 v12; v14 = read; ret }
random 94 -- C blocks=5 constants=4 others=7 func { b0(v0): v1 = const 0; br b1(v1, v0, v0); b1(v2, v3, v4): scope { b0(): scope v0 { b0(v5): v6 = add v2 v0; v7 = const 0; v8 = const 2; br b2(); \
    b1(): v9 = add v1 v2; cbr v9 b2() b2(); b2(): v10, v11 = pair; ret }; print v4; ret }; ret v0; b2(): v12 = read; v13 = div v12 v12; br b2() } \
    => func { b0(v0): v1 = const 0; br b1(v1, v0, v0); b1(v2, v3, v4): v5 = const 0; scope { b0(): scope v0 { b0(v6): v7 = add v5 v0; v8 = const 0; \
        v9 = const 2; br b2(); b1(): v10 = add v1 v5; cbr v10 b2() b2(); b2(): v11, v12 = pair; ret }; print v4; ret }; ret v0; \
        b2(): v13 = read; v14 = div v13 v13; br b2() }
random 95 -- C blocks=3 constants=2 others=6 func { b0(v0, v1): box { b0(): v2, v3 = pair; ret }; v4 = const 1; cbr v4 b1(v4, v1) b1(v4, v4); b1(v5, v6): v7 = add v6 v6; ret v1 } \
    => func { b0(v0, v1): box { b0(): v2, v3 = pair; ret }; v4 = const 1; cbr v4 b1(v4, v1) b1(v4, v4); b1(v5, v6): v7 = const 1; v8 = add v6 v6; ret v1 }
random 96 -- U blocks=1 constants=0 others=2 func { b0(v0): v1 = add v0 v0; print v0; sink; sink v0 v1; br b0(v0) } => func { b0(v0): v1 = add v0 v0; print v0; sink; sink v0 v1; br b0(v0) }
random 97 -- C blocks=3 constants=4 others=7 func { b0(v0, v1): sink v0 v1 v1; v2 = const 1; cbr v1 b2(v2, v0, v1) b2(v2, v2, v1); b1(v3, v4): sink; v5 = div v3 v4; cbr v3 b1(v2, v4) b1(v2, v5); \
    b2(v6, v7, v8): v9 = const 1; v10 = mul v8 v9; scope v8 { b0(v11): v12 = div v11 v11; ret }; v13 = const 9223372036854775807; ret v0 } \
    => func { b0(v0, v1): sink v0 v1 v1; v2 = const 1; cbr v1 b2(v2, v0, v1) b2(v2, v2, v1); b1(v3, v4): sink; v5 = div v3 v4; cbr v3 b1(v2, v4) b1(v2, v5); \
        b2(v6, v7, v8): v9 = const 1; v10 = const 1; v11 = mul v8 v10; scope v8 { b0(v12): v13 = div v12 v12; ret }; v14 = const 9223372036854775807; ret v0 }
random 98 -- C blocks=5 constants=6 others=1 func { b0(): scope { b0(): v0 = const 0; v1 = const -3; ret }; br b2(); b1(): v2 = const 0; cbr v2 b2() b2(); \
    b2(): scope { b0(v3): v4 = const 7; v5 = const 1; cbr v3 b1(v5) b1(v5); b1(v6): v7 = add v6 v6; ret }; sink; ret } \
    => func { b0(): scope { b0(): v0 = const 0; v1 = const -3; ret }; br b2(); b1(): v2 = const 0; cbr v2 b2() b2(); \
        b2(): scope { b0(v3): v4 = const 7; v5 = const 1; cbr v3 b1(v5) b1(v5); b1(v6): v7 = const 1; v8 = const 2; v9 = add v7 v7; ret }; sink; ret }
random 99 -- C blocks=2 constants=4 others=6 func { b0(v0, v1): v2 = const -1; v3 = const 2; v4 = const 7; v5 = add v4 v4; cbr v1 b1(v1, v1, v2) b1(v0, v0, v5); \
    b1(v6, v7, v8): v9 = add v1 v6; ret v6; b2(): v10 = const 7; v11 = add v10 v10; v12 = mul v0 v10; br b1(v2, v11, v12) } \
    => func { b0(v0, v1): v2 = const -1; v3 = const 2; v4 = const 7; v5 = const 14; v6 = add v4 v4; cbr v1 b1(v1, v1, v2) b1(v0, v0, v5); \
        b1(v7, v8, v9): v10 = add v1 v7; ret v7; b2(): v11 = const 7; v12 = add v11 v11; v13 = mul v0 v11; br b1(v2, v12, v13) }
random 100 -- C blocks=3 constants=6 others=2 func { b0(): v0 = const -3; br b1(v0, v0, v0); b1(v1, v2, v3): v4 = read; v5 = const 7; cbr v5 b2() b2(); b2(): v6 = read; v7 = const 2; ret } \
    => func { b0(): v0 = const -3; br b1(v0, v0, v0); b1(v1, v2, v3): v4 = const -3; v5 = const -3; v6 = const -3; v7 = read; v8 = const 7; cbr v8 b2() b2(); \
        b2(): v9 = read; v10 = const 2; ret }
random 101 -- U blocks=1 constants=0 others=0 func { b0(): sink; ret; b1(v0, v1, v2): v3 = add v0 v2; v4 = const 1; br b1(v3, v2, v1); b2(v5, v6): print v6; ret v6 } \
    => func { b0(): sink; ret; b1(v0, v1, v2): v3 = add v0 v2; v4 = const 1; br b1(v3, v2, v1); b2(v5, v6): print v6; ret v6 }
random 102 -- C blocks=3 constants=5 others=7 func { b0(v0, v1): v2 = add v1 v0; v3 = add v1 v2; v4 = const 3; br b2(v3); \
    b1(v5, v6, v7): box { b0(v8): v9 = const 7; br b0(v8) }; sink v6 v6; v10 = read; v11 = const 0; br b2(v1); \
    b2(v12): v13 = add v12 v12; v14 = const -1; br b3(v14, v14, v12); b3(v15, v16, v17): v18 = const -1; ret } \
    => func { b0(v0, v1): v2 = add v1 v0; v3 = add v1 v2; v4 = const 3; br b2(v3); \
        b1(v5, v6, v7): box { b0(v8): v9 = const 7; br b0(v8) }; sink v6 v6; v10 = read; v11 = const 0; br b2(v1); \
        b2(v12): v13 = add v12 v12; v14 = const -1; br b3(v14, v14, v12); b3(v15, v16, v17): v18 = const -1; v19 = const -1; v20 = const -1; ret }
random 103 -- C blocks=4 constants=5 others=7 func { b0(v0): v1 = add v0 v0; cbr v0 b1(v0, v0) b1(v0, v1); b1(v2, v3): box { b0(): v4 = const 0; v5 = const 2; \
    cbr v4 b1(v3, v5, v5) b1(v5, v5, v5); b1(v6, v7, v8): v9 = mul v1 v4; sink; v10, v11 = pair; ret }; ret v1 } \
    => func { b0(v0): v1 = add v0 v0; cbr v0 b1(v0, v0) b1(v0, v1); b1(v2, v3): box { b0(): v4 = const 0; v5 = const 2; cbr v4 b1(v3, v5, v5) b1(v5, v5, v5); \
        b1(v6, v7, v8): v9 = const 2; v10 = const 2; v11 = const 0; v12 = mul v1 v4; sink; v13, v14 = pair; ret }; ret v1 }
random 104 -- C blocks=4 constants=5 others=2 func { b0(v0): v1 = const 0; scope v1 v1 { b0(): v2 = add v1 v1; cbr v2 b2() b2(); b1(v3, v4, v5): sink v5 v3 v5; ret; \
    b2(): v6 = const 0; ret }; br b2(v0, v1); b1(v7, v8): v9 = mul v7 v8; print v1; v10 = add v8 v7; cbr v8 b1(v9, v8) b2(v8, v10); \
    b2(v11, v12): v13 = const 1; ret } \
    => func { b0(v0): v1 = const 0; scope v1 v1 { b0(): v2 = const 0; v3 = add v1 v1; cbr v2 b2() b2(); b1(v4, v5, v6): sink v6 v4 v6; ret; \
        b2(): v7 = const 0; ret }; br b2(v0, v1); b1(v8, v9): v10 = mul v8 v9; print v1; v11 = add v9 v8; cbr v9 b1(v10, v9) b2(v9, v11); \
        b2(v12, v13): v14 = const 0; v15 = const 1; ret }
random 105 -- C blocks=2 constants=5 others=0 func { b0(): v0 = const 7; v1 = mul v0 v0; cbr v0 b2(v0, v1) b1(v1); b1(v2): sink v2; br b1(v2); b2(v3, v4): v5 = add v3 v4; ret } \
    => func { b0(): v0 = const 7; v1 = const 49; v2 = mul v0 v0; cbr v0 b2(v0, v1) b1(v1); b1(v3): sink v3; br b1(v3); \
        b2(v4, v5): v6 = const 49; v7 = const 7; v8 = const 56; v9 = add v7 v6; ret }
random 106 -- U blocks=3 constants=1 others=7 func { b0(v0): sink v0; v1 = read; br b1(v0); b1(v2): sink; v3 = div v2 v1; cbr v2 b2(v2, v2, v3) b1(v3); \
    b2(v4, v5, v6): v7 = const 2; sink; cbr v6 b2(v5, v4, v6) b1(v5) } \
    => func { b0(v0): sink v0; v1 = read; br b1(v0); b1(v2): sink; v3 = div v2 v1; cbr v2 b2(v2, v2, v3) b1(v3); \
        b2(v4, v5, v6): v7 = const 2; sink; cbr v6 b2(v5, v4, v6) b1(v5) }
random 107 -- C blocks=2 constants=4 others=2 func { b0(): sink; v0 = const 0; cbr v0 b1(v0, v0) b1(v0, v0); b1(v1, v2): v3 = add v1 v1; v4, v5 = pair; ret v5 } \
    => func { b0(): sink; v0 = const 0; cbr v0 b1(v0, v0) b1(v0, v0); b1(v1, v2): v3 = const 0; v4 = const 0; v5 = const 0; v6 = add v4 v4; v7, v8 = pair; \
        ret v8 }
random 108 -- C blocks=2 constants=4 others=2 func { b0(v0, v1): v2 = const 1; br b1(v2, v2, v2); b1(v3, v4, v5): print v5; print v5; cbr v4 b1(v5, v5, v3) b3(); \
    b2(v6, v7, v8): v9 = div v8 v6; v10 = const 0; br b1(v7, v8, v9); b3(): scope v2 v1 { b0(v11, v12): v13 = const 2; v14 = const 7; ret }; \
    cbr v2 b2(v2, v2, v2) b3() } \
    => func { b0(v0, v1): v2 = const 1; br b1(v2, v2, v2); b1(v3, v4, v5): v6 = const 1; v7 = const 1; v8 = const 1; print v6; print v6; \
        cbr v7 b1(v6, v6, v8) b3(); b2(v9, v10, v11): v12 = div v11 v9; v13 = const 0; br b1(v10, v11, v12); \
        b3(): scope v2 v1 { b0(v14, v15): v16 = const 2; v17 = const 7; ret }; cbr v2 b2(v2, v2, v2) b3() }
random 109 -- C blocks=3 constants=4 others=6 func { b0(v0, v1): v2 = add v0 v0; scope v0 v2 { b0(v3, v4): v5 = const 1; v6 = const 1; cbr v5 b2(v1, v6) b2(v3, v6); \
    b1(v7): v8 = add v7 v4; fork v8 b1 b2; b2(v9, v10): v11 = const 0; ret }; ret v2 } \
    => func { b0(v0, v1): v2 = add v0 v0; scope v0 v2 { b0(v3, v4): v5 = const 1; v6 = const 1; cbr v5 b2(v1, v6) b2(v3, v6); \
        b1(v7): v8 = add v7 v4; fork v8 b1 b2; b2(v9, v10): v11 = const 1; v12 = const 0; ret }; ret v2 }
random 110 -- C blocks=4 constants=5 others=0 func { b0(): v0 = const -3; v1 = const 2; box { b0(): ret }; cbr v0 b2() b1(); b1(): sink v0; v2 = const 2; cbr v2 b1() b2(); \
    b2(): v3 = add v0 v0; v4 = div v3 v1; cbr v4 b1() b1() } \
    => func { b0(): v0 = const -3; v1 = const 2; box { b0(): ret }; cbr v0 b2() b1(); b1(): sink v0; v2 = const 2; cbr v2 b1() b2(); \
        b2(): v3 = const -6; v4 = add v0 v0; v5 = const -3; v6 = div v3 v1; cbr v5 b1() b1() }
random 111 -- U blocks=1 constants=0 others=0 func { b0(): sink; ret; b1(v0, v1): v2 = add v0 v1; box { b0(): ret }; br b1(v1, v0) } \
    => func { b0(): sink; ret; b1(v0, v1): v2 = add v0 v1; box { b0(): ret }; br b1(v1, v0) }
random 112 -- C blocks=4 constants=6 others=0 func { b0(): sink; v0 = const 7; v1 = mul v0 v0; cbr v0 b2(v0, v0, v0) b1(v1); b1(v2): v3 = const 7; scope { b0(): br b1(); \
    b1(): print v2; ret }; cbr v2 b2(v2, v2, v3) b1(v2); b2(v4, v5, v6): v7 = add v4 v4; box { b0(): br b1(); b1(): sink; ret }; br b2(v6, v5, v6) } \
    => func { b0(): sink; v0 = const 7; v1 = const 49; v2 = mul v0 v0; cbr v0 b2(v0, v0, v0) b1(v1); b1(v3): v4 = const 7; scope { b0(): br b1(); \
        b1(): print v3; ret }; cbr v3 b2(v3, v3, v4) b1(v3); b2(v5, v6, v7): v8 = const 7; v9 = const 7; v10 = const 7; v11 = const 14; v12 = add v10 v10; \
        box { b0(): br b1(); b1(): sink; ret }; br b2(v8, v9, v8) }
random 113 -- C blocks=3 constants=5 others=7 func { b0(v0, v1): print v1; br b2(v0, v1, v1); b1(v2, v3): v4 = const 0; v5 = read; v6 = add v4 v2; ret; \
    b2(v7, v8, v9): v10 = mul v7 v9; print v10; print v7; v11 = const -9223372036854775808; br b1(v11, v11); b3(v12): v13 = const -3; v14 = const -3; ret } \
    => func { b0(v0, v1): print v1; br b2(v0, v1, v1); b1(v2, v3): v4 = const -9223372036854775808; v5 = const -9223372036854775808; v6 = const 0; v7 = read; \
        v8 = const -9223372036854775808; v9 = add v6 v5; ret; b2(v10, v11, v12): v13 = mul v10 v12; print v13; print v10; v14 = const -9223372036854775808; \
        br b1(v14, v14); b3(v15): v16 = const -3; v17 = const -3; ret }
random 114 -- C blocks=2 constants=2 others=5 func { b0(v0, v1): v2 = const 2; v3 = mul v2 v2; br b1(v1); b1(v4): v5 = add v4 v2; print v1; v6 = add v3 v5; ret; \
    b2(v7, v8): v9 = mul v7 v8; v10 = add v8 v7; ret } \
    => func { b0(v0, v1): v2 = const 2; v3 = const 4; v4 = mul v2 v2; br b1(v1); b1(v5): v6 = add v5 v2; print v1; v7 = add v3 v6; ret; \
        b2(v8, v9): v10 = mul v8 v9; v11 = add v9 v8; ret }
random 115 -- C blocks=2 constants=3 others=1 func { b0(v0): v1 = const 1; v2 = add v1 v1; cbr v1 b1() b1(); b1(): v3 = div v2 v1; print v3; print v3; cbr v0 b1() b1() } \
    => func { b0(v0): v1 = const 1; v2 = const 2; v3 = add v1 v1; cbr v1 b1() b1(); b1(): v4 = const 2; v5 = div v2 v1; print v4; print v4; cbr v0 b1() b1() }
random 116 -- U blocks=2 constants=0 others=8 func { b0(v0, v1): v2, v3 = pair; sink; br b1(v1); b1(v4): v5, v6 = pair; v7 = add v4 v5; br b1(v3); \
    b2(v8, v9, v10): v11 = mul v10 v8; v12 = const 0; cbr v11 b1(v2) b1(v10) } \
    => func { b0(v0, v1): v2, v3 = pair; sink; br b1(v1); b1(v4): v5, v6 = pair; v7 = add v4 v5; br b1(v3); \
        b2(v8, v9, v10): v11 = mul v10 v8; v12 = const 0; cbr v11 b1(v2) b1(v10) }
random 117 -- C blocks=3 constants=5 others=0 func { b0(): sink; v0 = const 0; v1 = add v0 v0; br b2(v1); b1(v2): print v2; v3 = div v1 v2; v4 = add v0 v0; fork v4 b2 b1; \
    b2(v5): print v5; box { b0(): v6 = add v1 v0; cbr v6 b0() b0() }; v7 = add v5 v5; sink; ret v7 } \
    => func { b0(): sink; v0 = const 0; v1 = const 0; v2 = add v0 v0; br b2(v1); b1(v3): print v3; v4 = div v1 v3; v5 = add v0 v0; fork v5 b2 b1; \
        b2(v6): v7 = const 0; print v7; box { b0(): v8 = const 0; v9 = add v1 v0; cbr v8 b0() b0() }; v10 = const 0; v11 = add v7 v7; sink; ret v10 }
random 118 -- C blocks=3 constants=5 others=3 func { b0(v0, v1): sink; v2 = add v1 v0; v3 = const 7; cbr v0 b2() b1(v3); b1(v4): v5 = div v4 v4; v6 = div v4 v4; ret v5; \
    b2(): v7 = const 1; ret v0; b3(v8, v9): v10, v11 = pair; v12 = add v2 v1; print v11; br b1(v11) } \
    => func { b0(v0, v1): sink; v2 = add v1 v0; v3 = const 7; cbr v0 b2() b1(v3); \
        b1(v4): v5 = const 7; v6 = const 1; v7 = div v5 v5; v8 = const 1; v9 = div v5 v5; ret v6; b2(): v10 = const 1; ret v0; \
        b3(v11, v12): v13, v14 = pair; v15 = add v2 v1; print v14; br b1(v14) }
random 119 -- C blocks=2 constants=3 others=2 func { b0(v0): v1 = const 0; print v1; v2 = add v0 v1; br b2(v1); b1(): scope v0 { b0(v3): v4 = div v3 v3; sink; ret }; cbr v2 b1() b1(); \
    b2(v5): v6 = add v5 v5; ret v1 } \
    => func { b0(v0): v1 = const 0; print v1; v2 = add v0 v1; br b2(v1); b1(): scope v0 { b0(v3): v4 = div v3 v3; sink; ret }; cbr v2 b1() b1(); \
        b2(v5): v6 = const 0; v7 = const 0; v8 = add v6 v6; ret v1 }
random 120 -- C blocks=4 constants=5 others=3 func { b0(v0): v1 = const 1; v2 = mul v0 v0; cbr v0 b2(v2, v1) b1(); b1(): v3 = const 0; scope v1 { b0(v4): print v4; v5 = const 7; sink; ret \
    }; cbr v3 b1() b1(); b2(v6, v7): sink v0 v6; cbr v2 b2(v7, v7) b2(v6, v7) } \
    => func { b0(v0): v1 = const 1; v2 = mul v0 v0; cbr v0 b2(v2, v1) b1(); b1(): v3 = const 0; scope v1 { b0(v4): v5 = const 1; print v5; v6 = const \
        7; sink; ret }; cbr v3 b1() b1(); b2(v7, v8): v9 = const 1; sink v0 v7; cbr v2 b2(v9, v9) b2(v7, v9) }
random 121 -- U blocks=3 constants=0 others=9 func { b0(v0, v1): v2, v3 = pair; cbr v1 b1(v1, v3) b1(v0, v3); \
    b1(v4, v5): v6 = add v3 v5; box { b0(): v7 = mul v2 v5; br b0() }; v8 = read; cbr v6 b1(v4, v6) b1(v5, v4) } \
    => func { b0(v0, v1): v2, v3 = pair; cbr v1 b1(v1, v3) b1(v0, v3); b1(v4, v5): v6 = add v3 v5; box { b0(): v7 = mul v2 v5; br b0() }; v8 = read; \
        cbr v6 b1(v4, v6) b1(v5, v4) }
random 122 -- C blocks=2 constants=3 others=4 func { b0(v0, v1): v2 = const 2; v3 = const 2; br b1(v2, v1); b1(v4, v5): print v4; v6 = add v0 v2; ret v5 } \
    => func { b0(v0, v1): v2 = const 2; v3 = const 2; br b1(v2, v1); b1(v4, v5): v6 = const 2; print v6; v7 = add v0 v2; ret v5 }
random 123 -- C blocks=2 constants=4 others=0 func { b0(): v0 = const 1; v1 = const 1; cbr v1 b3(v0) b2(); b1(): scope { b0(): box { b0(): br b1(v1, v0); \
    b1(v2, v3): v4 = read; ret }; v5 = add v1 v0; ret }; br b3(v1); b2(): v6 = mul v1 v0; ret v6; b3(v7): v8 = const 0; ret } \
    => func { b0(): v0 = const 1; v1 = const 1; cbr v1 b3(v0) b2(); b1(): scope { b0(): box { b0(): br b1(v1, v0); \
        b1(v2, v3): v4 = read; ret }; v5 = add v1 v0; ret }; br b3(v1); b2(): v6 = mul v1 v0; ret v6; b3(v7): v8 = const 1; v9 = const 0; ret }
random 124 -- C blocks=2 constants=6 others=0 func { b0(): v0 = const 0; br b2(v0, v0); b1(): v1, v2 = pair; print v1; cbr v1 b1() b2(v1, v1); \
    b2(v3, v4): v5 = const 1; v6 = mul v5 v5; v7 = const 3; ret } \
    => func { b0(): v0 = const 0; br b2(v0, v0); b1(): v1, v2 = pair; print v1; cbr v1 b1() b2(v1, v1); \
        b2(v3, v4): v5 = const 0; v6 = const 0; v7 = const 1; v8 = const 1; v9 = mul v7 v7; v10 = const 3; ret }
random 125 -- C blocks=4 constants=3 others=2 func { b0(): box { b0(): sink; v0 = const 7; cbr v0 b1(v0) b1(v0); b1(v1): print v1; v2 = mul v1 v1; ret }; scope { b0(): v3, v4 = pair; ret }; ret; \
    b1(v5, v6, v7): print v7; cbr v7 b2(v5, v6, v6) b1(v6, v6, v6); b2(v8, v9, v10): v11 = div v10 v10; ret v10 } \
    => func { b0(): box { b0(): sink; v0 = const 7; cbr v0 b1(v0) b1(v0); \
        b1(v1): v2 = const 7; print v2; v3 = const 49; v4 = mul v2 v2; ret }; scope { b0(): v5, v6 = pair; ret }; ret; \
        b1(v7, v8, v9): print v9; cbr v9 b2(v7, v8, v8) b1(v8, v8, v8); b2(v10, v11, v12): v13 = div v12 v12; ret v12 }
random 126 -- U blocks=2 constants=0 others=6 func { b0(v0): sink; print v0; v1, v2 = pair; cbr v2 b1(v2) b1(v2); b1(v3): v4 = add v3 v1; v5 = div v4 v3; br b1(v5); \
    b2(v6, v7): v8 = add v7 v0; v9, v10 = pair; cbr v7 b1(v9) b1(v6) } \
    => func { b0(v0): sink; print v0; v1, v2 = pair; cbr v2 b1(v2) b1(v2); b1(v3): v4 = add v3 v1; v5 = div v4 v3; br b1(v5); \
        b2(v6, v7): v8 = add v7 v0; v9, v10 = pair; cbr v7 b1(v9) b1(v6) }
random 127 -- C blocks=4 constants=2 others=7 func { b0(v0, v1): scope v0 { b0(v2): v3 = div v2 v1; v4, v5 = pair; br b1(); \
    b1(): cbr v2 b1() b1() }; v6 = const -9223372036854775808; cbr v1 b1(v0, v6) b1(v0, v6); b1(v7, v8): print v8; ret } \
    => func { b0(v0, v1): scope v0 { b0(v2): v3 = div v2 v1; v4, v5 = pair; br b1(); \
        b1(): cbr v2 b1() b1() }; v6 = const -9223372036854775808; cbr v1 b1(v0, v6) b1(v0, v6); b1(v7, v8): v9 = const -9223372036854775808; print v9; ret }
random 128 -- C blocks=3 constants=5 others=3 func { b0(v0): v1 = const 7; cbr v0 b1(v1, v0) b2(v0); b1(v2, v3): v4 = const 1; v5 = const 1; br b2(v2); b2(v6): v7 = const 1; ret v6 } \
    => func { b0(v0): v1 = const 7; cbr v0 b1(v1, v0) b2(v0); b1(v2, v3): v4 = const 7; v5 = const 1; v6 = const 1; br b2(v4); b2(v7): v8 = const 1; ret v7 }
random 129 -- C blocks=3 constants=2 others=5 func { b0(v0): v1 = const 7; box { b0(): ret }; v2 = add v1 v1; v3 = add v0 v2; fork v3 b1 b1; b1(v4): v5, v6 = pair; cbr v4 b1(v5) b1(v5); \
    b2(v7, v8): print v7; v9 = add v7 v8; ret } \
    => func { b0(v0): v1 = const 7; box { b0(): ret }; v2 = const 14; v3 = add v1 v1; v4 = add v0 v2; fork v4 b1 b1; \
        b1(v5): v6, v7 = pair; cbr v5 b1(v6) b1(v6); b2(v8, v9): print v8; v10 = add v8 v9; ret }
random 130 -- C blocks=2 constants=4 others=2 func { b0(): v0 = const 3; print v0; br b1(v0, v0); b1(v1, v2): v3 = const 1; v4, v5 = pair; ret v0 } \
    => func { b0(): v0 = const 3; print v0; br b1(v0, v0); b1(v1, v2): v3 = const 3; v4 = const 3; v5 = const 1; v6, v7 = pair; ret v0 }
random 131 -- U blocks=3 constants=1 others=5 func { b0(v0): scope { b0(): v1 = add v0 v0; v2 = const 0; print v0; ret }; v3 = add v0 v0; cbr v3 b1(v0, v0) b1(v0, v3); \
    b1(v4, v5): sink v4 v4; print v4; fork v3 b1 b1 } \
    => func { b0(v0): scope { b0(): v1 = add v0 v0; v2 = const 0; print v0; ret }; v3 = add v0 v0; cbr v3 b1(v0, v0) b1(v0, v3); \
        b1(v4, v5): sink v4 v4; print v4; fork v3 b1 b1 }
random 132 -- C blocks=2 constants=4 others=2 func { b0(): sink; v0 = const 0; v1 = const 2; cbr v1 b2(v1, v0) b2(v1, v0); b1(v2): print v2; print v2; v3 = read; fork v3 b1 b1; \
    b2(v4, v5): v6, v7 = pair; print v7; ret v6 } \
    => func { b0(): sink; v0 = const 0; v1 = const 2; cbr v1 b2(v1, v0) b2(v1, v0); b1(v2): print v2; print v2; v3 = read; fork v3 b1 b1; \
        b2(v4, v5): v6 = const 0; v7 = const 2; v8, v9 = pair; print v9; ret v8 }
random 133 -- C blocks=2 constants=5 others=0 func { b0(): v0 = const 2; sink v0 v0 v0; br b1(v0, v0); b1(v1, v2): v3 = add v1 v1; v4 = div v3 v2; ret } \
    => func { b0(): v0 = const 2; sink v0 v0 v0; br b1(v0, v0); b1(v1, v2): v3 = const 2; v4 = const 2; v5 = const 4; v6 = add v4 v4; v7 = const 2; \
        v8 = div v5 v3; ret }
random 134 -- C blocks=3 constants=3 others=2 func { b0(v0): print v0; v1 = const -3; br b2(v1, v1); b1(): sink v1 v0 v1; sink v0 v1 v0; sink v1; cbr v1 b1() b1(); \
    b2(v2, v3): box { b0(v4): ret }; cbr v3 b2(v3, v3) b1() } \
    => func { b0(v0): print v0; v1 = const -3; br b2(v1, v1); b1(): sink v1 v0 v1; sink v0 v1 v0; sink v1; cbr v1 b1() b1(); \
        b2(v2, v3): v4 = const -3; v5 = const -3; box { b0(v6): ret }; cbr v4 b2(v4, v4) b1() }
random 135 -- C blocks=4 constants=6 others=2 func { b0(): box { b0(): sink; sink; ret; b1(): ret }; v0 = const -9223372036854775808; v1 = add v0 v0; cbr v0 b1() b1(); \
    b1(): v2 = mul v0 v1; scope { b0(): v3 = add v2 v0; v4, v5 = pair; ret }; v6 = const -1; v7 = add v2 v2; ret } \
    => func { b0(): box { b0(): sink; sink; ret; b1(): ret }; v0 = const -9223372036854775808; v1 = const 0; v2 = add v0 v0; cbr v0 b1() b1(); \
        b1(): v3 = const 0; v4 = mul v0 v1; scope { b0(): v5 = const -9223372036854775808; v6 = add v3 v0; v7, v8 = pair; ret }; v9 = const -1; \
        v10 = const 0; v11 = add v3 v3; ret }
random 136 -- U blocks=3 constants=2 others=11 func { b0(v0, v1): v2, v3 = pair; v4, v5 = pair; br b2(); b1(): v6 = const -1; v7 = add v6 v6; sink v5 v7 v7; v8 = const 2; br b2(); \
    b2(): v9 = div v5 v0; v10 = const 3; v11 = add v0 v9; v12 = const 0; cbr v9 b3(v9, v11) b3(v0, v12); b3(v13, v14): v15 = div v13 v14; ret v5 } \
    => func { b0(v0, v1): v2, v3 = pair; v4, v5 = pair; br b2(); b1(): v6 = const -1; v7 = add v6 v6; sink v5 v7 v7; v8 = const 2; br b2(); \
        b2(): v9 = div v5 v0; v10 = const 3; v11 = add v0 v9; v12 = const 0; cbr v9 b3(v9, v11) b3(v0, v12); b3(v13, v14): v15 = div v13 v14; ret v5 }
random 137 -- C blocks=4 constants=2 others=5 func { b0(v0, v1): scope { b0(v2): ret }; br b1(); b1(): v3 = add v0 v0; v4 = const 0; cbr v3 b2(v4) b1(); b2(v5): v6 = add v0 v5; br b2(v5) } \
    => func { b0(v0, v1): scope { b0(v2): ret }; br b1(); b1(): v3 = add v0 v0; v4 = const 0; cbr v3 b2(v4) b1(); \
        b2(v5): v6 = const 0; v7 = add v0 v6; br b2(v6) }
random 138 -- C blocks=3 constants=8 others=3 func { b0(v0): scope { b0(): v1 = read; v2 = const 1; cbr v1 b0() b0() }; v3 = const 7; br b2(v0, v3, v3); \
    b1(v4, v5): v6 = add v5 v4; v7 = mul v4 v4; v8 = mul v7 v4; v9, v10 = pair; ret; \
    b2(v11, v12, v13): v14 = add v12 v12; v15 = const 0; v16 = const 0; v17 = add v16 v15; ret } \
    => func { b0(v0): scope { b0(): v1 = read; v2 = const 1; cbr v1 b0() b0() }; v3 = const 7; br b2(v0, v3, v3); \
        b1(v4, v5): v6 = add v5 v4; v7 = mul v4 v4; v8 = mul v7 v4; v9, v10 = pair; ret; \
        b2(v11, v12, v13): v14 = const 7; v15 = const 7; v16 = const 14; v17 = add v15 v15; v18 = const 0; v19 = const 0; v20 = const 0; v21 = add v19 v18; \
        ret }
random 139 -- C blocks=4 constants=5 others=4 func { b0(): v0 = const 2; scope v0 { b0(v1): cbr v0 b1(v1) b1(v0); b1(v2): v3 = add v2 v2; ret }; v4 = div v0 v0; sink v0 v4 v0; br b2(v0, \
    v4); b1(v5): v6 = const -3; br b3(); b2(v7, v8): v9, v10 = pair; print v9; br b2(v9, v7); b3(): v11 = read; sink v11; v12 = const 1; br b1(v12) } \
    => func { b0(): v0 = const 2; scope v0 { b0(v1): v2 = const 2; cbr v0 b1(v2) b1(v0); b1(v3): v4 = const 2; v5 = const 4; v6 = add v4 v4; ret }; v7 \
        = const 1; v8 = div v0 v0; sink v0 v7 v0; br b2(v0, v7); b1(v9): v10 = const -3; br b3(); b2(v11, v12): v13, v14 = pair; print v13; br b2(v13, \
        v11); b3(): v15 = read; sink v15; v16 = const 1; br b1(v16) }
random 140 -- C blocks=3 constants=5 others=9 func { b0(): v0 = const 0; v1 = const 9223372036854775807; v2 = mul v1 v1; v3 = div v2 v0; br b1(v3); \
    b1(v4): v5 = mul v4 v0; v6 = add v5 v0; cbr v5 b1(v6) b2(v6, v4); b2(v7, v8): v9 = add v0 v8; v10 = add v8 v7; v11, v12 = pair; v13 = add v7 v12; \
    cbr v13 b2(v3, v12) b1(v9) } \
    => func { b0(): v0 = const 0; v1 = const 9223372036854775807; v2 = const 1; v3 = mul v1 v1; v4 = div v2 v0; br b1(v4); \
        b1(v5): v6 = const 0; v7 = mul v5 v0; v8 = const 0; v9 = add v6 v0; cbr v6 b1(v8) b2(v8, v5); \
        b2(v10, v11): v12 = add v0 v11; v13 = add v11 v10; v14, v15 = pair; v16 = add v10 v15; cbr v16 b2(v4, v15) b1(v12) }
random 141 -- U blocks=4 constants=2 others=10 func { b0(v0, v1): v2, v3 = pair; v4 = const 0; box { b0(): v5 = const 1; br b0() }; br b1(v2, v1); \
    b1(v6, v7): print v4; v8 = div v6 v6; scope v7 { b0(v9): v10 = div v9 v9; v11 = div v9 v9; cbr v11 b0(v9) b0(v11) }; ret v6 } \
    => func { b0(v0, v1): v2, v3 = pair; v4 = const 0; box { b0(): v5 = const 1; br b0() }; br b1(v2, v1); \
        b1(v6, v7): print v4; v8 = div v6 v6; scope v7 { b0(v9): v10 = div v9 v9; v11 = div v9 v9; cbr v11 b0(v9) b0(v11) }; ret v6 }
random 142 -- C blocks=2 constants=5 others=0 func { b0(): v0 = const 0; v1 = const 2; br b1(v1); b1(v2): v3 = div v1 v2; v4 = add v3 v0; ret v4 } \
    => func { b0(): v0 = const 0; v1 = const 2; br b1(v1); b1(v2): v3 = const 2; v4 = const 1; v5 = div v1 v3; v6 = const 1; v7 = add v4 v0; ret v6 }
random 143 -- C blocks=6 constants=7 others=4 func { b0(): box { b0(v0): scope { b0(): v1 = add v0 v0; ret }; box { b0(): ret }; ret }; sink; v2 = const 0; br b1(); \
    b1(): v3 = mul v2 v2; print v3; cbr v3 b2(v3, v3) b2(v3, v3); b2(v4, v5): v6 = const 7; v7 = add v6 v5; v8, v9 = pair; v10 = div v6 v7; br b2(v4, v4) } \
    => func { b0(): box { b0(v0): scope { b0(): v1 = add v0 v0; ret }; box { b0(): ret }; ret }; sink; v2 = const 0; br b1(); \
        b1(): v3 = const 0; v4 = mul v2 v2; print v3; cbr v3 b2(v3, v3) b2(v3, v3); \
        b2(v5, v6): v7 = const 0; v8 = const 0; v9 = const 7; v10 = const 7; v11 = add v9 v7; v12, v13 = pair; v14 = const 1; v15 = div v9 v10; \
        br b2(v8, v8) }
random 144 -- C blocks=5 constants=6 others=4 func { b0(): scope { b0(): v0 = const 0; fork v0 b2 b2; b1(v1, v2, v3): v4 = const -3; br b1(v1, v3, v4); b2(v5, v6, v7): v8 = mul v5 v6; \
    print v5; br b2(v6, v6, v6) }; v9 = const 1; cbr v9 b1() b1(); b1(): v10 = mul v9 v9; v11 = const 0; print v10; scope v9 v11 { b0(v12, v13): sink \
    v12; ret }; ret } \
    => func { b0(): scope { b0(): v0 = const 0; fork v0 b2 b2; b1(v1, v2, v3): v4 = const -3; br b1(v1, v3, v4); b2(v5, v6, v7): v8 = mul v5 v6; print \
        v5; br b2(v6, v6, v6) }; v9 = const 1; cbr v9 b1() b1(); b1(): v10 = const 1; v11 = mul v9 v9; v12 = const 0; print v10; scope v9 v12 { \
        b0(v13, v14): v15 = const 0; v16 = const 1; sink v16; ret }; ret }
random 145 -- C blocks=5 constants=4 others=9 func { b0(v0, v1): v2 = add v1 v0; scope v1 { b0(v3): v4 = const -1; scope v4 { b0(): br b0() }; br b1(v4, v4); \
    b1(v5, v6): sink; v7 = mul v6 v6; scope { b0(v8): v9, v10 = pair; v11 = mul v10 v8; ret }; cbr v4 b1(v0, v6) b1(v0, v6) }; v12 = const 0; ret v1 } \
    => func { b0(v0, v1): v2 = add v1 v0; scope v1 { b0(v3): v4 = const -1; scope v4 { b0(): br b0() }; br b1(v4, v4); \
        b1(v5, v6): v7 = const -1; sink; v8 = const 1; v9 = mul v7 v7; scope { b0(v10): v11, v12 = pair; v13 = mul v12 v10; ret }; \
        cbr v4 b1(v0, v7) b1(v0, v7) }; v14 = const 0; ret v1 }
random 146 -- U blocks=3 constants=0 others=9 func { b0(): v0 = read; cbr v0 b1(v0, v0) b1(v0, v0); b1(v1, v2): print v2; v3 = read; v4, v5 = pair; box { b0(): v6 = read; v7, v8 = pair; \
    cbr v6 b0() b0() }; ret } \
    => func { b0(): v0 = read; cbr v0 b1(v0, v0) b1(v0, v0); b1(v1, v2): print v2; v3 = read; v4, v5 = pair; box { b0(): v6 = read; v7, v8 = pair; \
        cbr v6 b0() b0() }; ret }
random 147 -- C blocks=2 constants=3 others=1 func { b0(): v0 = read; v1 = const -1; br b1(v1); b1(v2): v3 = add v1 v1; br b1(v2); \
    b2(v4, v5): v6 = add v4 v1; v7 = add v5 v0; cbr v6 b3(v0, v5, v7) b3(v7, v5, v6); b3(v8, v9, v10): v11 = read; ret v10 } \
    => func { b0(): v0 = read; v1 = const -1; br b1(v1); b1(v2): v3 = const -1; v4 = const -2; v5 = add v1 v1; br b1(v3); \
        b2(v6, v7): v8 = add v6 v1; v9 = add v7 v0; cbr v8 b3(v0, v7, v9) b3(v9, v7, v8); b3(v10, v11, v12): v13 = read; ret v12 }
random 148 -- C blocks=3 constants=5 others=4 func { b0(): v0 = const 2; box { b0(v1): v2 = mul v1 v1; v3 = mul v0 v1; v4 = const 0; ret }; cbr v0 b1(v0, v0, v0) b2(v0); \
    b1(v5, v6, v7): v8 = read; cbr v6 b1(v5, v0, v5) b2(v7); b2(v9): v10 = const 1; v11 = const 1; ret v9 } \
    => func { b0(): v0 = const 2; box { b0(v1): v2 = mul v1 v1; v3 = mul v0 v1; v4 = const 0; ret }; cbr v0 b1(v0, v0, v0) b2(v0); \
        b1(v5, v6, v7): v8 = const 2; v9 = const 2; v10 = const 2; v11 = read; cbr v9 b1(v10, v0, v10) b2(v8); \
        b2(v12): v13 = const 1; v14 = const 1; ret v12 }
random 149 -- C blocks=2 constants=6 others=0 func { b0(): v0 = const 0; cbr v0 b2(v0, v0, v0) b2(v0, v0, v0); \
    b1(v1, v2, v3): v4 = const 1; v5 = add v3 v2; sink v0; cbr v5 b2(v5, v5, v1) b2(v5, v1, v1); b2(v6, v7, v8): v9 = add v8 v6; v10 = add v6 v8; ret } \
    => func { b0(): v0 = const 0; cbr v0 b2(v0, v0, v0) b2(v0, v0, v0); b1(v1, v2, v3): v4 = const 1; v5 = add v3 v2; sink v0; \
        cbr v5 b2(v5, v5, v1) b2(v5, v1, v1); b2(v6, v7, v8): v9 = const 0; v10 = const 0; v11 = const 0; v12 = const 0; v13 = add v9 v11; v14 = const 0; \
        v15 = add v11 v9; ret }
random 150 -- C blocks=2 constants=5 others=0 func { b0(): v0 = const -3; v1 = const 7; cbr v1 b1(v1) b1(v1); b1(v2): sink v2; sink v2 v2; v3 = const -3; v4 = div v2 v2; br b1(v2) } \
    => func { b0(): v0 = const -3; v1 = const 7; cbr v1 b1(v1) b1(v1); b1(v2): v3 = const 7; sink v3; sink v3 v3; v4 = const -3; v5 = const 1; \
        v6 = div v3 v3; br b1(v3) }
random 151 -- U blocks=3 constants=3 others=7 func { b0(v0, v1): v2 = add v0 v0; v3 = const 2; v4 = const 2; cbr v0 b2(v4) b1(v2, v0); b1(v5, v6): v7 = const 0; v8 = mul v5 v5; br b2(v8); \
    b2(v9): sink v9 v9; sink; ret v9 } \
    => func { b0(v0, v1): v2 = add v0 v0; v3 = const 2; v4 = const 2; cbr v0 b2(v4) b1(v2, v0); b1(v5, v6): v7 = const 0; v8 = mul v5 v5; br b2(v8); \
        b2(v9): sink v9 v9; sink; ret v9 }
random 152 -- C blocks=3 constants=3 others=6 func { b0(v0, v1): v2 = add v1 v0; v3 = mul v0 v0; v4 = const 7; scope { b0(): print v4; ret }; cbr v1 b1(v3, v4) b1(v1, v4); \
    b1(v5, v6): v7 = div v6 v3; v8 = const -3; ret } \
    => func { b0(v0, v1): v2 = add v1 v0; v3 = mul v0 v0; v4 = const 7; scope { b0(): print v4; ret }; cbr v1 b1(v3, v4) b1(v1, v4); \
        b1(v5, v6): v7 = const 7; v8 = div v7 v3; v9 = const -3; ret }
random 153 -- C blocks=2 constants=4 others=2 func { b0(v0, v1): v2 = const 2; v3 = const 7; br b1(v2); b1(v4): v5 = const 0; ret v2 } \
    => func { b0(v0, v1): v2 = const 2; v3 = const 7; br b1(v2); b1(v4): v5 = const 2; v6 = const 0; ret v2 }
random 154 -- C blocks=4 constants=2 others=5 func { b0(v0, v1): sink v0 v1 v1; v2 = const 1; cbr v2 b1() b1(); b1(): sink v2 v2; br b3(v2, v1); \
    b2(): scope { b0(): v3 = add v2 v1; cbr v3 b1() b1(); b1(): ret }; v4 = const 0; fork v1 b2 b1; \
    b3(v5, v6): v7, v8 = pair; sink; print v8; box { b0(): sink; ret }; ret v7 } \
    => func { b0(v0, v1): sink v0 v1 v1; v2 = const 1; cbr v2 b1() b1(); b1(): sink v2 v2; br b3(v2, v1); \
        b2(): scope { b0(): v3 = add v2 v1; cbr v3 b1() b1(); b1(): ret }; v4 = const 0; fork v1 b2 b1; \
        b3(v5, v6): v7 = const 1; v8, v9 = pair; sink; print v9; box { b0(): sink; ret }; ret v8 }
random 155 -- C blocks=3 constants=4 others=5 func { b0(): v0 = const 0; v1 = div v0 v0; v2 = div v0 v0; cbr v2 b2(v2, v0) b2(v2, v0); b1(): v3 = const 1; v4 = mul v2 v2; br b1(); \
    b2(v5, v6): sink v1 v6; v7 = add v6 v6; v8 = div v5 v0; print v7; cbr v1 b1() b2(v1, v7) } \
    => func { b0(): v0 = const 0; v1 = div v0 v0; v2 = div v0 v0; cbr v2 b2(v2, v0) b2(v2, v0); b1(): v3 = const 1; v4 = mul v2 v2; br b1(); \
        b2(v5, v6): v7 = const 0; sink v1 v7; v8 = const 0; v9 = add v7 v7; v10 = div v5 v0; print v8; cbr v1 b1() b2(v1, v8) }
random 156 -- U blocks=5 constants=0 others=10 func { b0(v0): scope v0 v0 { b0(v1, v2): cbr v2 b1() b1(); b1(): v3 = add v1 v2; box { b0(v4): v5 = add v4 v4; ret }; v6, v7 = pair; ret }; \
    cbr v0 b1() b1(); b1(): v8 = div v0 v0; v9 = add v8 v8; print v8; ret v8; b2(v10, v11): v12 = const 2; ret } \
    => func { b0(v0): scope v0 v0 { b0(v1, v2): cbr v2 b1() b1(); b1(): v3 = add v1 v2; box { b0(v4): v5 = add v4 v4; ret }; v6, v7 = pair; ret }; \
        cbr v0 b1() b1(); b1(): v8 = div v0 v0; v9 = add v8 v8; print v8; ret v8; b2(v10, v11): v12 = const 2; ret }
random 157 -- C blocks=2 constants=3 others=0 func { b0(): v0 = const 7; sink v0 v0 v0; br b1(v0); b1(v1): v2 = add v1 v1; sink; ret v1 } \
    => func { b0(): v0 = const 7; sink v0 v0 v0; br b1(v0); b1(v1): v2 = const 7; v3 = const 14; v4 = add v2 v2; sink; ret v2 }
random 158 -- C blocks=5 constants=10 others=2 func { b0(v0): v1 = const 2; br b1(v1); b1(v2): v3 = div v2 v1; v4 = add v3 v3; v5 = const -3; scope v0 v3 { b0(v6, v7): cbr v6 b1() b1(); \
    b1(): v8 = add v2 v5; cbr v8 b2(v3, v8) b1(); b2(v9, v10): v11 = add v2 v9; ret }; ret v2 } \
    => func { b0(v0): v1 = const 2; br b1(v1); b1(v2): v3 = const 2; v4 = const 1; v5 = div v3 v1; v6 = const 2; v7 = add v4 v4; v8 = const -3; scope \
        v0 v4 { b0(v9, v10): v11 = const 1; cbr v9 b1() b1(); b1(): v12 = const -1; v13 = add v3 v8; cbr v12 b2(v4, v12) b1(); b2(v14, v15): v16 = \
        const -1; v17 = const 1; v18 = const 3; v19 = add v3 v17; ret }; ret v3 }
random 159 -- C blocks=2 constants=2 others=3 func { b0(): v0 = const 0; cbr v0 b2() b2(); b1(v1, v2): v3 = const -3; v4 = const 2; fork v4 b2 b2; \
    b2(): v5 = add v0 v0; print v5; v6, v7 = pair; v8 = div v5 v5; ret v6 } \
    => func { b0(): v0 = const 0; cbr v0 b2() b2(); b1(v1, v2): v3 = const -3; v4 = const 2; fork v4 b2 b2; \
        b2(): v5 = const 0; v6 = add v0 v0; print v5; v7, v8 = pair; v9 = div v5 v5; ret v7 }
random 160 -- C blocks=5 constants=7 others=4 func { b0(v0, v1): v2 = const 2; cbr v0 b3(v1, v2) b2(v2); b1(v3): v4 = div v3 v3; br b3(v2, v3); \
    b2(v5): sink; sink; print v5; v6 = const -3; br b1(v5); b3(v7, v8): box { b0(v9): v10 = const 7; br b0(v10) }; ret v0 } \
    => func { b0(v0, v1): v2 = const 2; cbr v0 b3(v1, v2) b2(v2); b1(v3): v4 = const 2; v5 = const 1; v6 = div v4 v4; br b3(v2, v4); \
        b2(v7): v8 = const 2; sink; sink; print v8; v9 = const -3; br b1(v8); \
        b3(v10, v11): v12 = const 2; box { b0(v13): v14 = const 7; br b0(v14) }; ret v0 }";
