//! Texts made at random in which uses may be anywhere, and edges may forward too few values or too many,
//! with what is left of each, as in `cases`. `C` is before one that changes, `U` before one that does not.

pub static HOSTILE: &str = "\
random, ill defined, 1 -- U func { b0(v0): v1 = add v1 v0; print v1; br b0() } => func { b0(v0): v1 = add v1 v0; print v1; br b0() }
random, ill defined, 2 -- C func { b0(): v0, v1 = pair; v2 = add v1 v1; br b1(v0, v10); b1(v3, v4): v5 = const 7; v6 = div v3 v3; sink v3; v7 = add v0 v6; cbr v5 b1(v7, v7) b3(); \
    b2(v8, v9): v10 = const 0; v11 = add v11 v1; v12 = div v3 v2; br b3(); b3(): scope v2 { b0(v13): ret }; v14 = div v0 v1; cbr v12 b2(v5, v14) b2(v2, v2) } \
    => func { b0(): v0, v1 = pair; v2 = add v1 v1; br b1(v0); b1(v3): v4 = const 7; v5 = div v3 v3; v6 = add v0 v5; cbr v4 b1(v6) b3(); \
        b2(): v7 = add v7 v1; v8 = div v3 v2; br b3(); b3(): scope v2 { b0(v9): ret }; v10 = div v0 v1; cbr v8 b2() b2() }
random, ill defined, 3 -- C func { b0(v0, v1): v2 = const 0; cbr v0 b1(v1) b1(v0, v2); b1(v3, v4): sink v4 v6; v5, v6 = pair; ret v4 } \
    => func { b0(v0, v1): v2 = const 0; cbr v0 b1() b1(v2); b1(v3): ret v3 }
random, ill defined, 4 -- C func { b0(v0, v1): v2 = div v0 v6; sink v0 v1; sink; cbr v7 b1() b2(v2, v2); b1(): sink v2; fork v1 b3 b3; b2(v3, v4): v5, v6 = pair; br b2(v2, v3, v6); \
    b3(v7, v8, v9): v10 = add v7 v7; v11, v12 = pair; v13, v14 = pair; v15, v16 = pair; ret v7 } \
    => func { b0(v0, v1): v2 = div v0 v4; cbr v5 b1() b2(); b1(): fork v1 b3 b3; b2(): v3, v4 = pair; br b2(v4); b3(v5, v6, v7): ret v5 }
random, ill defined, 5 -- U func { b0(v0): v1, v2 = pair; br b0(v2) } => func { b0(v0): v1, v2 = pair; br b0(v2) }
random, ill defined, 6 -- C func { b0(): v0 = add v4 v9; scope { b0(): v1 = const 1; v2 = const 1; cbr v0 b1() b2(v1, v0, v0); \
    b1(): v3, v4 = pair; cbr v4 b2(v3, v3, v3) b2(v3, v4, v3); b2(v5, v6, v7): v8 = div v13 v2; cbr v5 b1() b2(v2, v8, v5, v8) }; v9 = read; v10 = div v6 v0; \
    br b1(v9, v0, v9); b1(v11, v12, v13): v14 = const -3; ret v13 } \
    => func { b0(): v0 = add v4 v8; scope { b0(): v1 = const 1; v2 = const 1; cbr v0 b1() b2(v1, v0); b1(): v3, v4 = pair; cbr v4 b2(v3, v3) b2(v3, v4); \
        b2(v5, v6): v7 = div v10 v2; cbr v5 b1() b2(v2, v7, v7) }; v8 = read; v9 = div v6 v0; br b1(v8); b1(v10): ret v10 }
random, ill defined, 7 -- C func { b0(v0, v1): v2 = const 7; v3 = mul v2 v1; cbr v0 b1() b3(); b1(): v4 = add v3 v15; sink; v5 = const 0; v6 = add v4 v5; cbr v4 b1() b3(); \
    b2(v7): v8 = const 0; v9 = const 1; v10 = const 1; ret; b3(): v11 = const -3; scope v11 { b0(): v12 = add v3 v2; v13, v14 = pair; ret }; v15 = read; \
    ret v15 } \
    => func { b0(v0, v1): v2 = const 7; v3 = mul v2 v1; cbr v0 b1() b3(); b1(): v4 = add v3 v6; cbr v4 b1() b3(); b2(): ret; \
        b3(): v5 = const -3; scope v5 { b0(): ret }; v6 = read; ret v6 }
random, ill defined, 8 -- C func { b0(v0, v1): v2 = add v1 v6; v3, v4 = pair; cbr v4 b1(v3, v2) b1(v0, v3); b1(v5, v6): sink v6; ret } \
    => func { b0(v0, v1): v2 = add v1 v5; v3, v4 = pair; cbr v4 b1(v2) b1(v3); b1(v5): ret }
random, ill defined, 9 -- U func { b0(): v0 = const 0; cbr v0 b0() b0() } => func { b0(): v0 = const 0; cbr v0 b0() b0() }
random, ill defined, 10 -- C func { b0(v0): v1 = div v0 v0; v2, v3 = pair; v4 = const 7; v5, v6 = pair; br b2(v6, v1, v7); \
    b1(v7, v8, v9): v10 = add v9 v0; cbr v10 b1(v10, v10, v10) b1(v10, v9, v9); \
    b2(v11, v12, v13): v14 = add v12 v1; sink v14; scope v14 { b0(): cbr v2 b0() b0() }; print v0; ret v12 } \
    => func { b0(v0): v1 = div v0 v0; v2, v3 = pair; br b2(v1); b1(v4): v5 = add v4 v0; cbr v5 b1(v5) b1(v4); \
        b2(v6): v7 = add v6 v1; scope v7 { b0(): cbr v2 b0() b0() }; print v0; ret v6 }
random, ill defined, 11 -- C func { b0(v0, v1): box { b0(): }; v2 = read; v3, v4 = pair; cbr v1 b1(v4) b2(v1); b1(v5): sink v5 v2 v5; cbr v5 b2(v1) b2(v5); \
    b2(v6): sink v3 v6; sink; sink v2; ret } \
    => func { b0(v0, v1): v2 = read; v3, v4 = pair; cbr v1 b1(v4) b2(); b1(v5): cbr v5 b2() b2(); b2(): ret }
random, ill defined, 12 -- C func { b0(): box { b0(v0): v1 = mul v0 v0 }; cbr v3 b1(v8, v7) b3(v11); b1(v2, v3): v4 = read; v5 = add v2 v4; cbr v10 b1(v4, v3) b3(v5); \
    b2(v6): v7 = const 0; v8 = const 7; v9 = const 0; ret v9; b3(v10): v11 = div v10 v10; v12 = read; v13 = const 0; v14 = add v11 v10; ret v11 } \
    => func { b0(): cbr v1 b1(v5, v4) b3(v8); b1(v0, v1): v2 = read; v3 = add v0 v2; cbr v7 b1(v2, v1) b3(v3); \
        b2(): v4 = const 0; v5 = const 7; v6 = const 0; ret v6; b3(v7): v8 = div v7 v7; v9 = read; ret v8 }
random, ill defined, 13 -- U func { b0(): v0 = read; br b0() } => func { b0(): v0 = read; br b0() }
random, ill defined, 14 -- C func { b0(v0, v1): v2 = add v0 v1; box { b0(): v3 = mul v0 v1; sink v3; ret }; cbr v0 b1(v0, v1) b1(v0, v0); \
    b1(v4, v5): v6, v7 = pair; print v0; v8 = div v6 v7; v9 = const 1; ret } \
    => func { b0(v0, v1): cbr v0 b1() b1(); b1(): v2, v3 = pair; print v0; v4 = div v2 v3; ret }
random, ill defined, 15 -- C func { b0(): box { b0(v0): ret }; br b1(v2); b1(v1): v2, v3 = pair; ret v1 } => func { b0(): br b1(v1); b1(v0): v1, v2 = pair; ret v0 }
random, ill defined, 16 -- C func { b0(v0, v1): v2 = add v1 v0; v3 = add v2 v1; v4 = add v1 v2; cbr v1 b1(v1, v1) b1(v4); b1(v5): sink v3; ret } \
    => func { b0(v0, v1): cbr v1 b1(v1) b1(); b1(): ret }
random, ill defined, 17 -- U func { b0(v0): v1 = div v0 v0; v2 = const -3; cbr v6 b1(v2) b1(v2); b1(v3): v4 = mul v3 v5; box { b0(v5): v6, v7 = pair; cbr v6 b0(v4) b0(v5, v0) }; \
    cbr v2 b1(v3) b1(v1) } \
    => func { b0(v0): v1 = div v0 v0; v2 = const -3; cbr v6 b1(v2) b1(v2); \
        b1(v3): v4 = mul v3 v5; box { b0(v5): v6, v7 = pair; cbr v6 b0(v4) b0(v5, v0) }; cbr v2 b1(v3) b1(v1) }
random, ill defined, 18 -- C func { b0(): v0 = div v7 v8; v1 = add v0 v6; v2 = mul v1 v1; cbr v9 b1(v2) b2(); b1(v3): v4 = add v2 v3; v5 = add v3 v0; print v0; cbr v3 b2() b3(v3); \
    b2(): v6 = const 1; scope { b0(): sink v6; sink v7 v6; ret }; cbr v1 b1(v6) b2(v6); \
    b3(v7): v8 = div v7 v3; v9 = read; v10 = add v7 v8; v11 = add v10 v0; br b3(v8) } \
    => func { b0(): v0 = div v5 v6; v1 = add v0 v4; v2 = mul v1 v1; cbr v7 b1(v2) b2(); b1(v3): print v0; cbr v3 b2() b3(v3); \
        b2(): v4 = const 1; scope { b0(): ret }; cbr v1 b1(v4) b2(v4); b3(v5): v6 = div v5 v3; v7 = read; br b3(v6) }
random, ill defined, 19 -- C func { b0(v0): v1, v2 = pair; v3 = add v0 v1; v4 = const 0; br b1(); b1(): v5, v6 = pair; scope v11 { b0(v7): br b2(v7, v0, v7); \
    b1(v8): v9 = div v8 v7; sink v8 v8; br b2(v8, v8, v9); b2(v10, v11, v12): }; ret v6 } \
    => func { b0(v0): br b1(); b1(): v1, v2 = pair; scope v6 { b0(v3): br b2(v0); b1(v4): v5 = div v4 v3; br b2(v4); b2(v6): }; ret v2 }
random, ill defined, 20 -- C func { b0(v0, v1): v2 = read; v3, v4 = pair; v5 = add v7 v1; sink; cbr v0 b1(v0) b1(); b1(): print v1; v6 = read; br b2(v6, v3, v6); \
    b2(v7, v8, v9): v10 = const 2; scope { b0(): box { b0(): v11 = mul v4 v10; v12, v13 = pair; v14 = add v12 v5; ret } }; v15 = read; ret v4 } \
    => func { b0(v0, v1): v2 = read; v3, v4 = pair; cbr v0 b1(v0) b1(); b1(): print v1; v5 = read; br b2(); b2(): scope { b0(): }; v6 = read; ret v4 }
random, ill defined, 21 -- U func { b0(): scope { b0(): br b1(); b1(): v0 = add v2 v0; ret }; v1, v2 = pair; ret v1 } \
    => func { b0(): scope { b0(): br b1(); b1(): v0 = add v2 v0; ret }; v1, v2 = pair; ret v1 }
random, ill defined, 22 -- C func { b0(v0, v1): box { b0(): sink v0; v2 = read }; box { b0(): v3 = const 0; sink; br b1(); \
    b1(v4): v5 = div v3 v4; box { b0(v6): v7 = add v6 v6; v8 = mul v1 v0 }; ret }; cbr v0 b1() b1(); \
    b1(): v9 = const 1; v10 = mul v0 v0; v11 = add v1 v1; br b2(v0); b2(v12): ret v12 } \
    => func { b0(v0, v1): cbr v0 b1() b1(); b1(): br b2(v0); b2(v2): ret v2 }
random, ill defined, 23 -- C func { b0(v0): v1 = const 0; v2 = const 2; v3 = add v4 v2; br b1(v1); b1(v4): v5 = add v1 v4; br b2(); b2(): v6 = const 1; v7, v8 = pair; ret } \
    => func { b0(v0): br b1(); b1(): br b2(); b2(): ret }
random, ill defined, 24 -- C func { b0(v0, v1): box { b0(): ret }; br b1(v1, v0); b1(v2, v3): v4 = add v3 v12; v5, v6 = pair; cbr v6 b1(v2, v2) b3(); \
    b2(v7): box { b0(v8): br b0(v0) }; v9 = const 2; ret v7; b3(v10): v11 = add v12 v12; v12 = div v11 v1; ret } \
    => func { b0(v0, v1): br b1(v1); b1(v2): v3, v4 = pair; cbr v4 b1(v2) b3(); b2(v5): ret v5; b3(): v6 = add v7 v7; v7 = div v6 v1; ret }
random, ill defined, 25 -- U func { b0(v0): v1 = div v0 v2; v2 = const 0; ret v1 } => func { b0(v0): v1 = div v0 v2; v2 = const 0; ret v1 }
random, ill defined, 26 -- C func { b0(): cbr v1 b1(v6) b1(); b1(v0): print v0; v1 = mul v0 v3; scope v1 { b0(): v2 = add v1 v0; cbr v2 b1() b2(v2, v2); \
    b1(): v3 = add v0 v1; v4 = read; br b1(); b2(v5, v6, v7): v8 = add v1 v7; v9 = mul v8 v6; cbr v9 b1() b1() }; ret } \
    => func { b0(): cbr v1 b1(v5) b1(); b1(v0): print v0; v1 = mul v0 v3; scope v1 { b0(): v2 = add v1 v0; cbr v2 b1() b2(v2); \
        b1(): v3 = add v0 v1; v4 = read; br b1(); b2(v5, v6): v7 = add v1 v6; v8 = mul v7 v5; cbr v8 b1() b1() }; ret }
random, ill defined, 27 -- C func { b0(v0, v1): v2 = const 1; cbr v2 b3(v2) b3(); b1(v3, v4, v5): scope { b0(v6): v7 = read; v8 = read; br b0(v6) }; ret v0; \
    b2(v9, v10): v11 = div v10 v8; v12 = mul v10 v11; cbr v6 b1(v11, v9) b3(); b3(): v13 = const 1; ret v13 } \
    => func { b0(v0, v1): v2 = const 1; cbr v2 b3(v2) b3(); b1(): scope { b0(v3): v4 = read; v5 = read; br b0(v3) }; ret v0; \
        b2(v6): v7 = div v6 v5; cbr v3 b1() b3(); b3(): v8 = const 1; ret v8 }
random, ill defined, 28 -- C func { b0(v0): v1 = add v0 v0; cbr v0 b1(v1, v1) b1(v1, v1, v1); b1(v2, v3): v4 = read; v5 = add v2 v2; ret } \
    => func { b0(v0): v1 = add v0 v0; cbr v0 b1() b1(v1); b1(): v2 = read; ret }
random, ill defined, 29 -- U func { b0(v0, v1): v2 = read; ret v1 } => func { b0(v0, v1): v2 = read; ret v1 }
random, ill defined, 30 -- C func { b0(v0): v1 = add v0 v0; cbr v0 b0() b0() } => func { b0(v0): cbr v0 b0() b0() }
random, ill defined, 31 -- C func { b0(v0, v1): v2 = const 0; v3 = mul v6 v4; v4, v5 = pair; cbr v1 b1(v3, v1) b2(); b1(v6, v7): v8 = const 0; v9 = const 7; cbr v9 b2() b2(); \
    b2(): v10 = read; v11 = div v10 v10; v12 = add v10 v2; cbr v5 b1(v5, v10) b2() } \
    => func { b0(v0, v1): v2 = mul v5 v3; v3, v4 = pair; cbr v1 b1(v2) b2(); b1(v5): v6 = const 7; cbr v6 b2() b2(); \
        b2(): v7 = read; v8 = div v7 v7; cbr v4 b1(v4) b2() }
random, ill defined, 32 -- C func { b0(v0): box { b0(v1): sink; br b0(v1) }; cbr v0 b1(v0, v0) b1(v0, v0); b1(v2, v3): sink v2 v2; ret v3 } \
    => func { b0(v0): cbr v0 b1(v0) b1(v0); b1(v1): ret v1 }
random, ill defined, 33 -- U func { b0(v0, v1): v2, v3 = pair; ret v2 } => func { b0(v0, v1): v2, v3 = pair; ret v2 }
random, ill defined, 34 -- C func { b0(v0, v1): box { b0(): v2 = div v6 v1; v3 = div v1 v2; v4 = add v0 v12; br b1(v1); b1(v5): v6 = read }; v7 = const 0; br b2(v0, v7); \
    b1(v8, v9, v10): v11, v12 = pair; cbr v9 b1(v9, v12, v8) b3(); b2(v13): v14 = const 0; sink v0 v13 v13; fork v13 b3 b3; \
    b3(): v15 = const 0; sink v15 v0; br b1(v13, v15, v15) } \
    => func { b0(v0, v1): v2 = const 0; br b2(v0, v2); b1(v3): v4, v5 = pair; cbr v3 b1(v5) b3(); b2(v6): fork v6 b3 b3; b3(): v7 = const 0; br b1(v7) }
random, ill defined, 35 -- C func { b0(): sink v3; sink v0 v5; v0 = mul v0 v1; v1 = const -3; br b2(v1, v0); b1(v2): v3 = div v2 v2; sink v3; br b1(v3); \
    b2(v4, v5): v6 = add v4 v5; v7 = const -3; v8 = read; ret v8 } \
    => func { b0(): v0 = mul v0 v1; v1 = const -3; br b2(); b1(v2): v3 = div v2 v2; br b1(v3); b2(): v4 = read; ret v4 }
random, ill defined, 36 -- C func { b0(): sink; print v2; sink v7; sink v1 v12; ret; b1(v0, v1): sink v1; ret; b2(v2): v3 = const 2; box { b0(): cbr v3 b1(v11, v3, v2) b1(v2, v3, v2); \
    b1(v4, v5, v6): scope v1 { b0(v7): v8, v9 = pair; sink; cbr v9 b2() b1(v5); b1(): v10, v11 = pair; br b2(); \
    b2(): }; v12 = add v2 v5; ret }; br b2(v2, v3) } \
    => func { b0(): print v0; ret; b1(): ret; b2(v0): v1 = const 2; br b2(v0, v1) }
random, ill defined, 37 -- U func { b0(v0): v1 = read; v2 = const 2; fork v2 b1 b1; b1(): v3, v4 = pair; print v4; br b1() } \
    => func { b0(v0): v1 = read; v2 = const 2; fork v2 b1 b1; b1(): v3, v4 = pair; print v4; br b1() }
random, ill defined, 38 -- C func { b0(v0): v1 = mul v0 v0; cbr v1 b2(v4) b1(v1); b1(v2): scope { b0(): ret }; cbr v2 b2(v2) b2(v1, v3); b2(v3): ret; \
    b3(v4, v5, v6): print v4; v7 = const 0; ret v6 } \
    => func { b0(v0): v1 = mul v0 v0; cbr v1 b2(v4) b1(v1); b1(v2): scope { b0(): ret }; cbr v2 b2(v2) b2(v1, v3); b2(v3): ret; b3(v4, v5): print v4; ret v5 }
random, ill defined, 39 -- C func { b0(): box { b0(): v0 = mul v2 v3; v1 = read; br b1(v1, v1); b1(v2, v3): ret }; ret } => func { b0(): ret }
random, ill defined, 40 -- C func { b0(v0): v1 = const 0; cbr v1 b2() b2(); b1(v2, v3, v4): sink; v5 = div v2 v7; ret v3; \
    b2(): box { b0(v6): }; scope v3 v6 { b0(v7, v8): sink v5 v7; sink }; cbr v0 b1(v1, v0, v1) b1(v1, v1, v0) } \
    => func { b0(v0): v1 = const 0; cbr v1 b2() b2(); b1(v2, v3): v4 = div v2 v6; ret v3; \
        b2(): box { b0(v5): }; scope v3 v5 { b0(v6, v7): }; cbr v0 b1(v1, v0) b1(v1, v1) }
random, ill defined, 41 -- U func { b0(): v0 = div v1 v1; v1 = mul v0 v0; br b0() } => func { b0(): v0 = div v1 v1; v1 = mul v0 v0; br b0() }
random, ill defined, 42 -- C func { b0(v0, v1): print v4; cbr v1 b2(v1, v0) b2(v1, v1, v1); b1(v2): v3 = add v2 v2; cbr v2 b3(v3, v4, v3) b1(v0); \
    b2(v4, v5, v6): v7 = const 2; v8 = const 0; br b3(v8, v5); b3(v9, v10): v11 = const -3; v12 = add v11 v11; ret v10 } \
    => func { b0(v0, v1): print v4; cbr v1 b2(v1, v0) b2(v1, v1); b1(v2): v3 = add v2 v2; cbr v2 b3(v4, v3) b1(v0); b2(v4, v5): br b3(v5); b3(v6): ret v6 }
random, ill defined, 43 -- C func { b0(v0): v1 = mul v9 v0; v2 = add v0 v0; br b1(v0, v2); b1(v3, v4): v5 = const 7; cbr v2 b1(v5, v0) b2(v1, v0, v5); \
    b2(v6, v7, v8): sink v8 v8 v6; v9 = add v8 v8; ret v7 } \
    => func { b0(v0): v1 = add v0 v0; br b1(); b1(): cbr v1 b1() b2(v0); b2(v2): ret v2 }
random, ill defined, 44 -- C func { b0(v0, v1): box { b0(): v2 = mul v3 v0; br b1(); b1(): }; cbr v1 b2(v1, v0, v0) b1(v1); b1(v3): cbr v3 b1(v0) b1(v3); \
    b2(v4, v5): v6 = const 2; print v3; ret } \
    => func { b0(v0, v1): cbr v1 b2(v0) b1(v1); b1(v2): cbr v2 b1(v0) b1(v2); b2(): print v2; ret }
random, ill defined, 45 -- U func { b0(v0): v1 = read; cbr v0 b2() b1(v1, v1, v1); b1(v2, v3, v4): v5 = add v4 v2; v6 = div v5 v5; v7 = add v5 v1; v8 = mul v4 v2; \
    cbr v8 b1(v7, v3) b1(v2, v6, v2); b2(): v9, v10 = pair; v11 = div v8 v1; ret v9 } \
    => func { b0(v0): v1 = read; cbr v0 b2() b1(v1, v1, v1); b1(v2, v3, v4): v5 = add v4 v2; v6 = div v5 v5; v7 = add v5 v1; v8 = mul v4 v2; \
        cbr v8 b1(v7, v3) b1(v2, v6, v2); b2(): v9, v10 = pair; v11 = div v8 v1; ret v9 }
random, ill defined, 46 -- C func { b0(): v0 = const 1; cbr v0 b1(v0, v0) b1(v0, v0); b1(v1, v2): sink v1; ret } => func { b0(): v0 = const 1; cbr v0 b1() b1(); b1(): ret }
random, ill defined, 47 -- C func { b0(v0): v1 = const -3; v2 = read; box { b0(): br b1(v0); b1(v3): ret }; fork v2 b2 b2; b1(v4, v5): v6, v7 = pair; v8 = const 1; ret v6; \
    b2(v9, v10, v11): scope v1 v11 { b0(): v12 = add v11 v9; v13 = add v12 v12; br b1(v12, v13, v11); \
    b1(v14, v15): cbr v11 b1(v10, v14) b1(v13, v0) }; sink v5; ret v11 } \
    => func { b0(v0): v1 = const -3; v2 = read; fork v2 b2 b2; b1(): v3, v4 = pair; ret v3; b2(v5, v6, v7): scope v1 v7 { b0(): br b1(v7); \
        b1(): cbr v7 b1() b1() }; ret v7 }
random, ill defined, 48 -- C func { b0(): v0, v1 = pair; box { b0(): v2 = div v0 v1; br b1(v1); b1(v3, v4): v5 = add v4 v3; v6 = read; cbr v4 b1(v5, v1, v3) b1(v3, v2) }; \
    box { b0(): }; br b2(); b1(): v7 = const 0; v8 = mul v7 v7; v9 = const 7; v10 = const 0; cbr v10 b2() b1(); \
    b2(): v11, v12 = pair; sink v10; print v1; sink v1 v1 v11; br b2() } \
    => func { b0(): v0, v1 = pair; br b2(); b1(): v2 = const 0; cbr v2 b2() b1(); b2(): print v1; br b2() }
random, ill defined, 49 -- U func { b0(v0): v1 = add v0 v0; cbr v0 b0(v0) b0(v1) } => func { b0(v0): v1 = add v0 v0; cbr v0 b0(v0) b0(v1) }
random, ill defined, 50 -- C func { b0(v0): v1 = add v0 v0; v2 = add v1 v6; cbr v0 b1(v1, v0, v2) b1(v2, v0); \
    b1(v3, v4): v5 = div v3 v0; scope v3 { b0(v6): v7 = read; v8 = mul v7 v6; cbr v3 b1() b1(v6); b1(): v9 = read; v10 = add v9 v9; ret; \
    b2(): v11 = mul v8 v0 }; br b1(v5, v5) } \
    => func { b0(v0): v1 = add v0 v0; v2 = add v1 v5; cbr v0 b1(v1, v2) b1(v2); b1(v3): v4 = div v3 v0; scope v3 { b0(v5): v6 = read; cbr v3 b1() b1(v5); \
        b1(): v7 = read; ret; b2(): }; br b1(v4) }
random, ill defined, 51 -- C func { b0(): v0, v1 = pair; br b1(v0); b1(v2): v3, v4 = pair; box { b0(): v5 = add v3 v11; print v2; br b1(v2); \
    b1(v6): v7 = read; v8, v9 = pair; v10 = read }; v11 = div v4 v3; br b3(v4); b2(v12, v13): sink v13; v14 = div v12 v12; cbr v14 b1(v13) b3(v1); \
    b3(v15): v16 = const 0; ret v15 } \
    => func { b0(): v0, v1 = pair; br b1(); b1(): v2, v3 = pair; v4 = div v3 v2; br b3(v3); b2(v5): v6 = div v5 v5; cbr v6 b1() b3(v1); b3(v7): ret v7 }
random, ill defined, 52 -- C func { b0(): scope { b0(): v0 = div v6 v2; fork v5 b0 b0 }; br b2(v1, v3, v0); b1(v1): v2, v3 = pair; print v2; v4 = div v2 v2; ret v4; \
    b2(v5, v6, v7): v8 = add v6 v6; ret v5 } \
    => func { b0(): scope { b0(): v0 = div v6 v2; fork v5 b0 b0 }; br b2(v1, v3); b1(v1): v2, v3 = pair; print v2; v4 = div v2 v2; ret v4; \
        b2(v5, v6): ret v5 }
random, ill defined, 53 -- U func { b0(): ret; b1(v0, v1): v2 = div v2 v0; v3 = add v1 v1; cbr v1 b1(v2, v3) b1(v1) } \
    => func { b0(): ret; b1(v0, v1): v2 = div v2 v0; v3 = add v1 v1; cbr v1 b1(v2, v3) b1(v1) }
random, ill defined, 54 -- C func { b0(v0): v1, v2 = pair; v3 = add v2 v1; cbr v1 b1(v0) b1(v2); b1(v4): v5 = const -3; br b1(v7); \
    b2(v6): v7 = read; v8 = const 1; scope v8 { b0(): v9 = mul v1 v7; v10 = add v9 v9; ret }; sink v8 v6 v7; ret v3 } \
    => func { b0(v0): v1, v2 = pair; v3 = add v2 v1; cbr v1 b1() b1(); b1(): br b1(); b2(): v4 = read; v5 = const 1; scope v5 { b0(): ret }; ret v3 }
random, ill defined, 55 -- C func { b0(v0): v1 = div v9 v0; box { b0(): v2 = const -3; v3 = const 7; cbr v0 b0() b0() }; v4 = read; br b1(v1, v4); \
    b1(v5, v6): box { b0(): v7 = mul v4 v1; ret }; box { b0(): v8 = read; cbr v1 b1() b1(); b1(): v9 = const 0 }; print v6; v10, v11 = pair; ret v7 } \
    => func { b0(v0): v1 = div v6 v0; v2 = read; br b1(v2); b1(v3): box { b0(): v4 = mul v2 v1; ret }; box { b0(): v5 = read; cbr v1 b1() b1(); \
        b1(): v6 = const 0 }; print v3; ret v4 }
random, ill defined, 56 -- C func { b0(v0, v1): v2 = const 0; sink; cbr v0 b1(v1) b1(v1); b1(v3): v4 = mul v2 v3; cbr v4 b1(v3, v3) b1(v3); \
    b2(v5, v6, v7): v8, v9 = pair; v10 = div v9 v5; ret v2 } \
    => func { b0(v0, v1): v2 = const 0; cbr v0 b1(v1) b1(v1); b1(v3): v4 = mul v2 v3; cbr v4 b1(v3, v3) b1(v3); \
        b2(v5): v6, v7 = pair; v8 = div v7 v5; ret v2 }
random, ill defined, 57 -- U func { b0(): v0 = add v2 v4; v1 = const 0; cbr v0 b1(v1) b1(v3); b1(v2): v3 = mul v1 v2; v4 = add v2 v1; cbr v3 b1(v4) b1(v4) } \
    => func { b0(): v0 = add v2 v4; v1 = const 0; cbr v0 b1(v1) b1(v3); b1(v2): v3 = mul v1 v2; v4 = add v2 v1; cbr v3 b1(v4) b1(v4) }
random, ill defined, 58 -- C func { b0(v0): v1 = const -3; v2 = div v8 v1; br b3(v0); b1(v3): sink v3 v8 v7; v4 = div v8 v1; cbr v3 b3(v4) b2(v2, v0); \
    b2(v5): v6 = read; v7 = const 2; cbr v6 b3(v6) b3(v7); b3(v8): sink; sink; ret v8 } \
    => func { b0(v0): v1 = const -3; v2 = div v7 v1; br b3(v0); b1(v3): v4 = div v7 v1; cbr v3 b3(v4) b2(v0); \
        b2(): v5 = read; v6 = const 2; cbr v5 b3(v5) b3(v6); b3(v7): ret v7 }
random, ill defined, 59 -- C func { b0(v0): scope v0 { b0(): scope v0 { b0(v1): v2 = add v1 v0; br b0() } }; v3 = read; sink v0; cbr v1 b2(v0) b1(v3, v3, v0); \
    b1(v4, v5, v6): v7 = const 2; v8 = div v6 v4; sink; br b2(); b2(): v9, v10 = pair; v11 = add v9 v11; sink; ret } \
    => func { b0(v0): scope v0 { b0(): scope v0 { b0(v1): br b0() } }; v2 = read; cbr v1 b2(v0) b1(v2, v0); b1(v3, v4): v5 = div v4 v3; br b2(); \
        b2(): v6, v7 = pair; v8 = add v6 v8; ret }
random, ill defined, 60 -- C func { b0(v0): sink v0 v0; v1 = const 1; cbr v0 b1(v0) b1(); b1(v2): v3 = mul v2 v1; v4 = const 2; ret } => func { b0(v0): cbr v0 b1() b1(); b1(): ret }
random, ill defined, 61 -- U func { b0(v0): v1 = read; v2, v3 = pair; ret v3 } => func { b0(v0): v1 = read; v2, v3 = pair; ret v3 }
random, ill defined, 62 -- C func { b0(): box { b0(): br b0() }; v0 = mul v2 v8; sink v0 v0; v1 = mul v0 v0; cbr v0 b1(v6, v1, v3) b2(v0, v0); \
    b1(v2, v3, v4): sink v4 v2 v2; v5, v6 = pair; cbr v9 b2(v0) b1(v6, v5, v3); b2(v7): v8 = div v4 v0; v9 = div v7 v8; cbr v0 b1(v8, v8, v7, v7) b2(v9) } \
    => func { b0(): v0 = mul v2 v8; v1 = mul v0 v0; cbr v0 b1(v6, v1, v3) b2(v0, v0); b1(v2, v3, v4): v5, v6 = pair; cbr v9 b2(v0) b1(v6, v5, v3); \
        b2(v7): v8 = div v4 v0; v9 = div v7 v8; cbr v0 b1(v8, v8, v7, v7) b2(v9) }
random, ill defined, 63 -- C func { b0(v0): v1 = mul v0 v3; v2 = const 0; br b2(v2, v9); b1(v3, v4): scope { b0(): cbr v3 b0() b0() }; v5 = add v3 v3; br b2(v5, v4); \
    b2(v6, v7): scope { b0(): v8 = const 0; v9 = const 0; cbr v1 b0(v8) b0() }; v10 = const 1; cbr v10 b1(v7, v7) b1(v1, v10) } \
    => func { b0(v0): v1 = mul v0 v2; br b2(v6); b1(v2, v3): scope { b0(): cbr v2 b0() b0() }; br b2(v3); \
        b2(v4): scope { b0(): v5 = const 0; v6 = const 0; cbr v1 b0(v5) b0() }; v7 = const 1; cbr v7 b1(v4, v4) b1(v1, v7) }
random, ill defined, 64 -- C func { b0(v0, v1): sink v6 v0; v2, v3 = pair; cbr v1 b1(v1) b1(v1, v1); b1(v4): v5 = const 0; v6 = read; v7 = add v0 v1; v8 = const 0; ret v3 } \
    => func { b0(v0, v1): v2, v3 = pair; cbr v1 b1() b1(v1); b1(): v4 = read; ret v3 }
random, ill defined, 65 -- U func { b0(): scope { b0(): br b1(v4, v0); b1(v0, v1): br b1(v1, v1); b2(v2): v3 = add v2 v2; box { b0(v4): v5 = div v4 v2; v6 = const 0; \
    cbr v3 b0(v6) b0(v3, v4) } }; v7 = div v8 v7; v8 = mul v7 v7; ret v8 } \
    => func { b0(): scope { b0(): br b1(v4, v0); b1(v0, v1): br b1(v1, v1); \
        b2(v2): v3 = add v2 v2; box { b0(v4): v5 = div v4 v2; v6 = const 0; cbr v3 b0(v6) b0(v3, v4) } }; v7 = div v8 v7; v8 = mul v7 v7; ret v8 }
random, ill defined, 66 -- C func { b0(): v0 = add v3 v4; scope v0 { b0(v1): br b1(v1, v1); b1(v2, v3): v4 = const 1; br b1(v3, v4) }; print v0; v5, v6 = pair; ret v1 } \
    => func { b0(): v0 = add v2 v3; scope v0 { b0(v1): br b1(v1); b1(v2): v3 = const 1; br b1(v3) }; print v0; ret v1 }
random, ill defined, 67 -- C func { b0(): box { b0(v0): v1 = mul v2 v0; print v1; br b0(v1) }; br b3(v2); b1(v2, v3): v4 = mul v2 v3; br b3(v2); \
    b2(): v5 = div v4 v5; v6 = const 0; br b3(v5); b3(v7): v8 = const 7; v9 = mul v7 v4; br b2() } \
    => func { b0(): br b3(); b1(v0, v1): v2 = mul v0 v1; br b3(); b2(): v3 = div v2 v3; br b3(); b3(): br b2() }
random, ill defined, 68 -- C func { b0(): scope { b0(): sink v1 }; v0, v1 = pair; cbr v0 b1() b1(v0); b1(): v2 = mul v1 v1; v3 = const 1; print v3; sink v4; br b1(); \
    b2(v4): v5 = read; sink v4 v1 v4; ret v5 } \
    => func { b0(): scope { b0(): }; v0, v1 = pair; cbr v0 b1() b1(v0); b1(): v2 = const 1; print v2; br b1(); b2(): v3 = read; ret v3 }
random, ill defined, 69 -- U func { b0(): v0 = const 0; v1, v2 = pair; cbr v1 b1(v0) b1(); b1(): v3 = read; v4 = add v3 v4; ret v4 } \
    => func { b0(): v0 = const 0; v1, v2 = pair; cbr v1 b1(v0) b1(); b1(): v3 = read; v4 = add v3 v4; ret v4 }
random, ill defined, 70 -- C func { b0(): scope v1 { b0(v0): v1 = const 7; sink v0 v0 v1; sink; ret }; v2 = div v3 v2; cbr v2 b1() b1(); \
    b1(): sink; scope v2 { b0(): scope { b0(): sink v2; sink; cbr v2 b0() b0() }; v3 = const 0; cbr v3 b0() b0() }; ret v2 } \
    => func { b0(): scope v1 { b0(v0): v1 = const 7; ret }; v2 = div v3 v2; cbr v2 b1() b1(); \
        b1(): scope v2 { b0(): scope { b0(): cbr v2 b0() b0() }; v3 = const 0; cbr v3 b0() b0() }; ret v2 }
random, ill defined, 71 -- C func { b0(v0): sink v0 v8; box { b0(v1): cbr v10 b1(v1) b1(v1); b1(v2): v3 = mul v0 v0; v4 = read; ret }; cbr v0 b2() b2(); \
    b1(v5, v6): v7 = const 2; v8 = add v7 v6; v9 = mul v8 v7; fork v8 b2 b2; b2(): v10 = add v0 v0; ret } \
    => func { b0(v0): cbr v0 b2() b2(); b1(v1): v2 = const 2; v3 = add v2 v1; fork v3 b2 b2; b2(): ret }
random, ill defined, 72 -- C func { b0(): sink; v0 = mul v13 v6; cbr v0 b2(v10, v0) b1(v0, v0, v0); b1(v1, v2): v3 = const 1; ret v2; \
    b2(v4, v5): v6 = add v5 v5; v7 = const 0; v8 = const 7; br b1(v6, v3); b3(v9, v10): v11 = add v9 v10; v12 = add v10 v11; v13 = add v11 v12; ret v0 } \
    => func { b0(): v0 = mul v9 v4; cbr v0 b2(v0) b1(v0, v0); b1(v1): v2 = const 1; ret v1; b2(v3): v4 = add v3 v3; br b1(v2); \
        b3(v5, v6): v7 = add v5 v6; v8 = add v6 v7; v9 = add v7 v8; ret v0 }
random, ill defined, 73 -- U func { b0(v0, v1): v2 = div v0 v0; br b0(v2, v2) } => func { b0(v0, v1): v2 = div v0 v0; br b0(v2, v2) }
random, ill defined, 74 -- C func { b0(): v0 = const 2; sink; cbr v0 b1(v0) b1(v0, v0); b1(v1, v2): sink v0 v1; ret v1 } \
    => func { b0(): v0 = const 2; cbr v0 b1(v0) b1(v0); b1(v1): ret v1 }
random, ill defined, 75 -- C func { b0(v0): sink v0; v1 = div v0 v0; cbr v0 b2(v1) b2(v0); b1(v2): v3 = read; v4 = const 0; v5 = mul v8 v1; cbr v0 b1(v2) b1(v3); \
    b2(v6): v7 = div v6 v0; box { b0(v8): }; ret } \
    => func { b0(v0): v1 = div v0 v0; cbr v0 b2(v1) b2(v0); b1(v2): v3 = read; cbr v0 b1(v2) b1(v3); b2(v4): v5 = div v4 v0; ret }
random, ill defined, 76 -- C func { b0(v0, v1): v2, v3 = pair; cbr v2 b1(v1, v1) b2(); b1(v4, v5): v6, v7 = pair; cbr v5 b2() b1(v5); \
    b2(): v8 = add v0 v3; v9 = const 2; v10 = const -3; v11 = mul v9 v9; ret v11 } \
    => func { b0(v0, v1): v2, v3 = pair; cbr v2 b1(v1) b2(); b1(v4): cbr v4 b2() b1(); b2(): v5 = const 2; v6 = mul v5 v5; ret v6 }
random, ill defined, 77 -- U func { b0(v0): v1 = mul v0 v0; v2 = read; cbr v1 b1(v1, v1, v1) b1(v1, v1); b1(v3, v4): v5 = mul v3 v4; cbr v4 b1(v3, v0) b1(v5, v5) } \
    => func { b0(v0): v1 = mul v0 v0; v2 = read; cbr v1 b1(v1, v1, v1) b1(v1, v1); b1(v3, v4): v5 = mul v3 v4; cbr v4 b1(v3, v0) b1(v5, v5) }
random, ill defined, 78 -- C func { b0(): v0 = read; v1 = add v0 v0; br b1(v0); b1(v2): v3 = add v2 v2; v4 = const 1; v5 = mul v2 v0; ret } => func { b0(): v0 = read; br b1(); b1(): ret }
random, ill defined, 79 -- C func { b0(v0): v1 = add v0 v0; sink v0 v1 v9; v2, v3 = pair; fork v0 b1 b1; b1(v4, v5, v6): v7 = read; fork v4 b1 b1; \
    b2(v8): v9 = read; sink v1; v10 = mul v9 v3; ret } \
    => func { b0(v0): fork v0 b1 b1; b1(v1, v2, v3): v4 = read; fork v1 b1 b1; b2(): v5 = read; ret }
random, ill defined, 80 -- C func { b0(v0): v1, v2 = pair; box { b0(): }; v3, v4 = pair; br b1(v4, v2); b1(v5, v6): v7 = const -3; v8, v9 = pair; sink v0; cbr v5 b1(v4, v3) b2(); \
    b2(v10): sink v10 v0; v11 = const 7; ret } \
    => func { b0(v0): v1, v2 = pair; br b1(v2); b1(v3): cbr v3 b1(v2) b2(); b2(): ret }
random, ill defined, 81 -- U func { b0(v0, v1): print v1; v2 = read; ret v2 } => func { b0(v0, v1): print v1; v2 = read; ret v2 }
random, ill defined, 82 -- C func { b0(): box { b0(): v0 = add v8 v5; cbr v0 b0() b0() }; v1 = read; cbr v1 b2(v1) b2(v1); \
    b1(v2, v3): v4 = const -3; sink v3 v3; v5 = mul v4 v4; sink v5 v5 v0; br b1(v5, v5); b2(v6): print v6; ret v6; \
    b3(v7): sink v7 v1 v7; v8 = add v7 v1; cbr v7 b3() b3() } \
    => func { b0(): v0 = read; cbr v0 b2(v0) b2(v0); b1(): br b1(); b2(v1): print v1; ret v1; b3(v2): cbr v2 b3() b3() }
random, ill defined, 83 -- C func { b0(v0): print v0; v1 = div v0 v0; cbr v0 b1(v1, v0, v0, v1) b1(v0, v1, v0); b1(v2, v3, v4): sink v4 v3; v5 = div v3 v4; ret v3; \
    b2(): box { b0(): cbr v1 b1() b1(); b1(): br b1() }; v6 = div v0 v1; v7 = read; ret v0 } \
    => func { b0(v0): print v0; v1 = div v0 v0; cbr v0 b1(v0, v0, v1) b1(v1, v0); b1(v2, v3): v4 = div v2 v3; ret v2; \
        b2(): v5 = div v0 v1; v6 = read; ret v0 }
random, ill defined, 84 -- C func { b0(v0): sink v0; v1, v2 = pair; cbr v1 b1(v0, v2) b1(v1, v2, v2); \
    b1(v3, v4): scope v3 { b0(v5): v6 = add v4 v0; ret }; scope v0 { b0(): box { b0(): v7 = mul v3 v0; v8 = const 2; br b1(); \
    b1(): v9 = const -3; sink; ret }; sink v2 v2 }; ret v3 } \
    => func { b0(v0): v1, v2 = pair; cbr v1 b1(v0) b1(v1, v2); b1(v3): scope v3 { b0(v4): ret }; scope v0 { b0(): }; ret v3 }
random, ill defined, 85 -- U func { b0(v0): v1, v2 = pair; v3 = read; cbr v1 b0(v2) b0(v1) } => func { b0(v0): v1, v2 = pair; v3 = read; cbr v1 b0(v2) b0(v1) }
random, ill defined, 86 -- C func { b0(v0): v1, v2 = pair; v3 = div v0 v2; br b2(v3); b1(): sink v3 v0 v3; v4 = const -3; sink; br b2(v1); \
    b2(v5): v6 = const 7; sink v6 v2; v7 = div v6 v0; ret } \
    => func { b0(v0): v1, v2 = pair; v3 = div v0 v2; br b2(); b1(): br b2(); b2(): v4 = const 7; v5 = div v4 v0; ret }
random, ill defined, 87 -- C func { b0(v0): print v0; v1 = add v0 v2; cbr v0 b1(v1, v0) b1(v1, v1); b1(v2, v3): v4 = const 2; br b1(v2) } \
    => func { b0(v0): print v0; v1 = add v0 v2; cbr v0 b1(v1) b1(v1); b1(v2): br b1(v2) }
random, ill defined, 88 -- C func { b0(v0, v1): v2 = read; sink; box { b0(): print v1; box { b0(): cbr v0 b1(v1) b1(v1); \
    b1(v3): v4 = add v1 v3; v5 = div v3 v11 }; v6 = add v11 v10 }; v7 = const 7; br b1(v7); \
    b1(v8): sink; box { b0(v9): print v9; box { b0(): v10 = mul v8 v1; v11 = const 7 }; v12 = div v0 v9 }; v13 = const 0; v14 = const 2; br b1(v8) } \
    => func { b0(v0, v1): v2 = read; v3 = const 7; br b1(v3); b1(v4): br b1(v4) }
random, ill defined, 89 -- U func { b0(): v0 = const 0; ret v0 } => func { b0(): v0 = const 0; ret v0 }
random, ill defined, 90 -- C func { b0(v0, v1): v2, v3 = pair; br b2(v2); b1(v4): v5 = const 2; scope { b0(): sink v4 v1 }; v6 = read; cbr v4 b2(v0) b2(v12, v12); \
    b2(v7): v8 = const 7; scope { b0(): print v2; br b1(v8, v2); b1(v9): v10 = mul v9 v9; cbr v10 b1(v10) b1(v1) }; box { b0(): v11, v12 = pair; \
    v13, v14 = pair; fork v3 b0 b0 }; ret v8 } \
    => func { b0(v0, v1): v2, v3 = pair; br b2(); b1(v4): scope { b0(): }; v5 = read; cbr v4 b2() b2(v10); \
        b2(): v6 = const 7; scope { b0(): print v2; br b1(v6, v2); b1(v7): v8 = mul v7 v7; cbr v8 b1(v8) b1(v1) }; box { b0(): v9, v10 = pair; \
        fork v3 b0 b0 }; ret v6 }
random, ill defined, 91 -- C func { b0(): v0, v1 = pair; cbr v1 b1(v1) b1(v0); b1(v2): v3 = read; v4 = const 7; v5, v6 = pair; br b2(); \
    b2(): v7 = const 0; sink v7 v1; v8 = mul v7 v1; v9 = mul v9 v3; cbr v8 b3(v7) b3(); \
    b3(): v10 = add v1 v0; v11, v12 = pair; sink; v13, v14 = pair; ret v0 } \
    => func { b0(): v0, v1 = pair; cbr v1 b1() b1(); b1(): v2 = read; br b2(); b2(): v3 = const 0; v4 = mul v3 v1; v5 = mul v5 v2; cbr v4 b3(v3) b3(); \
        b3(): ret v0 }
random, ill defined, 92 -- C func { b0(v0): v1 = const -3; cbr v1 b2(v0, v1, v0) b1(); b1(): v2 = const 7; v3 = add v0 v2; cbr v3 b2(v2, v2) b2(v8, v3); \
    b2(v4, v5): v6 = read; v7 = add v5 v5; box { b0(v8): scope v7 { b0(v9): br b1(v9, v4); b1(v10, v11): sink v11 v11; ret }; v12 = add v8 v10 }; br b1() } \
    => func { b0(v0): v1 = const -3; cbr v1 b2(v0) b1(); b1(): v2 = const 7; v3 = add v0 v2; cbr v3 b2() b2(); b2(): v4 = read; br b1() }
random, ill defined, 93 -- U func { b0(v0): print v0; br b0(v0) } => func { b0(v0): print v0; br b0(v0) }
random, ill defined, 94 -- C func { b0(): v0 = mul v3 v3; print v0; v1 = div v7 v0; fork v6 b2 b1; b1(v2): sink v2 v0 v1; box { b0(): ret }; v3 = mul v2 v1; br b1(v3); \
    b2(): v4 = mul v7 v1; v5 = const 1; v6 = add v5 v5; v7, v8 = pair; br b2() } \
    => func { b0(): v0 = mul v3 v3; print v0; v1 = div v6 v0; fork v5 b2 b1; b1(v2): v3 = mul v2 v1; br b1(v3); \
        b2(): v4 = const 1; v5 = add v4 v4; v6, v7 = pair; br b2() }
random, ill defined, 95 -- C func { b0(): sink v5 v1; sink v0 v5; fork v1 b3 b3; b1(): v0 = div v1 v1; cbr v0 b2() b2(); b2(): v1, v2 = pair; ret v1; \
    b3(): box { b0(v3): v4 = read; ret }; v5 = const 0; ret v5 } \
    => func { b0(): fork v1 b3 b3; b1(): v0 = div v1 v1; cbr v0 b2() b2(); b2(): v1, v2 = pair; ret v1; b3(): v3 = const 0; ret v3 }
random, ill defined, 96 -- C func { b0(v0, v1): v2, v3 = pair; box { b0(): scope v2 { b0(v4): ret } }; br b2(); \
    b1(v5, v6, v7): v8, v9 = pair; v10 = mul v3 v8; print v8; cbr v10 b1(v10, v9, v6) b2(); \
    b2(): v11 = add v3 v3; v12, v13 = pair; cbr v11 b1(v13, v13, v13) b3(v13); b3(): sink; v14 = add v3 v0; sink v14 v14 v14; ret v14 } \
    => func { b0(v0, v1): v2, v3 = pair; br b2(); b1(): v4, v5 = pair; v6 = mul v3 v4; print v4; cbr v6 b1() b2(); \
        b2(): v7 = add v3 v3; v8, v9 = pair; cbr v7 b1() b3(v9); b3(): v10 = add v3 v0; ret v10 }
random, ill defined, 97 -- U func { b0(): v0 = add v0 v0; ret v0 } => func { b0(): v0 = add v0 v0; ret v0 }
random, ill defined, 98 -- C func { b0(v0, v1): v2 = div v1 v0; v3 = div v0 v3; v4 = const 0; scope { b0(): v5, v6 = pair; br b0(v6) }; cbr v3 b1(v1) b1(v0); \
    b1(v7): sink v7; sink v5 v1 v0; sink v2 v4 v7; v8 = const 0; cbr v4 b1() b1(v8) } \
    => func { b0(v0, v1): v2 = div v1 v0; v3 = div v0 v3; v4 = const 0; scope { b0(): v5, v6 = pair; br b0(v6) }; cbr v3 b1() b1(); b1(): cbr v4 b1() b1() }
random, ill defined, 99 -- C func { b0(v0): v1 = add v0 v11; v2, v3 = pair; br b1(v0, v0); b1(v4, v5, v6): sink; box { b0(v7): v8 = add v10 v3; br b1(v4, v7); \
    b1(v9, v10, v11): ret }; br b1(v3, v5, v6) } \
    => func { b0(v0): br b1(v0); b1(v1, v2): br b1(v1, v2) }
random, ill defined, 100 -- C func { b0(v0, v1): v2 = mul v1 v1; scope v4 v1 { b0(v3): box { b0(v4): v5 = read }; v6 = add v2 v3; sink v3 v1 v0; cbr v0 b1(v9, v1, v11) b1(v3, v5, v6); \
    b1(v7, v8, v9): v10 = div v2 v0; sink v9 v8 v7; ret }; cbr v2 b1() b1(v2); b1(v11): v12 = add v0 v2; sink v12; br b1(v11) } \
    => func { b0(v0, v1): v2 = mul v1 v1; scope v4 v1 { b0(v3): box { b0(v4): v5 = read }; cbr v0 b1() b1(); b1(): v6 = div v2 v0; ret }; cbr v2 b1() b1(v2); \
        b1(v7): br b1(v7) }
random, ill defined, 101 -- U func { b0(): v0 = add v1 v0; v1 = read; ret v0 } => func { b0(): v0 = add v1 v0; v1 = read; ret v0 }
random, ill defined, 102 -- C func { b0(v0): box { b0(): }; br b1(v0, v0, v0); b1(v1, v2, v3): v4 = add v2 v1; v5 = add v4 v4; v6 = add v3 v3; br b1(v6, v6, v2) } \
    => func { b0(v0): br b1(v0, v0); b1(v1, v2): v3 = add v2 v2; br b1(v3, v1) }
random, ill defined, 103 -- C func { b0(v0, v1): v2 = const -3; scope v0 { b0(): v3 = read; v4 = add v3 v3; cbr v0 b1() b1(); b1(): v5 = const 0 }; cbr v5 b1(v2, v1) b1(v3); \
    b1(v6, v7): v8 = const 2; ret v8 } \
    => func { b0(v0, v1): scope v0 { b0(): v2 = read; cbr v0 b1() b1(); b1(): v3 = const 0 }; cbr v3 b1() b1(); b1(): v4 = const 2; ret v4 }
random, ill defined, 104 -- C func { b0(v0): v1 = mul v0 v0; v2 = const -3; scope v5 v2 { b0(): v3 = read; v4 = read; cbr v1 b2() b2(); b1(v5, v6):; \
    b2(): v7 = mul v0 v2; sink v7 v3 v7; v8, v9 = pair; br b2() }; cbr v0 b0(v0) b0(v1) } \
    => func { b0(v0): v1 = mul v0 v0; v2 = const -3; scope v5 v2 { b0(): v3 = read; v4 = read; cbr v1 b2() b2(); b1(v5):; \
        b2(): br b2() }; cbr v0 b0(v0) b0(v1) }
random, ill defined, 105 -- U func { b0(v0, v1): v2 = const 1; cbr v2 b0(v0, v2) b0(v1, v1) } => func { b0(v0, v1): v2 = const 1; cbr v2 b0(v0, v2) b0(v1, v1) }
random, ill defined, 106 -- C func { b0(): box { b0(): v0 = add v0 v0; cbr v0 b1(v0) b1(v0, v0); b1(v1): v2 = const 0; sink v1 v2 v2; ret }; v3 = mul v0 v3; sink v3; br b1(); \
    b1(): print v3; ret v3 } \
    => func { b0(): box { b0(): v0 = add v0 v0; cbr v0 b1() b1(v0); b1(): ret }; v1 = mul v0 v1; br b1(); b1(): print v1; ret v1 }
random, ill defined, 107 -- C func { b0(v0, v1): box { b0(v2): v3 = const 7; v4 = div v2 v2; cbr v2 b0(v0, v4) b0() }; sink v5; v5 = div v1 v0; ret } \
    => func { b0(v0, v1): v2 = div v1 v0; ret }
random, ill defined, 108 -- C func { b0(v0, v1): v2 = add v7 v0; v3 = const 7; cbr v2 b2(v2) b2(v3, v6); b1(): sink v2 v2 v2; box { b0(v4): v5, v6 = pair; br b1(v4, v4); \
    b1(v7, v8): v9 = const 7; cbr v5 b1(v1, v8) b1(v8, v9, v7) }; ret v2; b2(v10, v11): v12 = read; ret } \
    => func { b0(v0, v1): v2 = add v6 v0; cbr v2 b2() b2(); b1(): box { b0(v3): v4, v5 = pair; br b1(v3, v3); \
        b1(v6, v7): v8 = const 7; cbr v4 b1(v1, v7) b1(v7, v8, v6) }; ret v2; b2(): v9 = read; ret }
random, ill defined, 109 -- U func { b0(v0): v1 = div v0 v1; cbr v1 b1() b1(); b1(): scope v0 { b0(): ret }; ret v0 } \
    => func { b0(v0): v1 = div v0 v1; cbr v1 b1() b1(); b1(): scope v0 { b0(): ret }; ret v0 }
random, ill defined, 110 -- C func { b0(v0, v1): v2 = add v0 v0; cbr v0 b1() b1(); b1(): sink v0 v2; br b3(); \
    b2(v3, v4, v5): print v0; v6 = add v1 v8; v7 = div v2 v4; cbr v0 b1(v4) b3(); \
    b3(): v8 = const 0; scope v8 v1 { b0(v9): v10 = add v7 v9; cbr v9 b0(v8) b0() }; ret v8 } \
    => func { b0(v0, v1): v2 = add v0 v0; cbr v0 b1() b1(); b1(): br b3(); b2(v3): print v0; v4 = div v2 v3; cbr v0 b1(v3) b3(); \
        b3(): v5 = const 0; scope v5 v1 { b0(v6): cbr v6 b0(v5) b0() }; ret v5 }
random, ill defined, 111 -- C func { b0(v0): v1 = mul v0 v0; v2 = div v1 v1; br b1(); b1(): sink v2; v3 = add v2 v0; ret; \
    b2(v4, v5, v6): v7 = const 0; sink v3; sink; v8 = add v4 v0; cbr v5 b1() b1() } \
    => func { b0(v0): v1 = mul v0 v0; v2 = div v1 v1; br b1(); b1(): ret; b2(v3): cbr v3 b1() b1() }
random, ill defined, 112 -- C func { b0(v0, v1): v2 = const 1; cbr v0 b1() b1(); b1(): box { b0(): cbr v9 b1(v0, v1, v1) b1(v1, v6, v1); \
    b1(v3, v4, v5): v6 = read; v7 = const 2 }; v8 = div v2 v2; v9 = add v1 v8; ret v8 } \
    => func { b0(v0, v1): v2 = const 1; cbr v0 b1() b1(); b1(): v3 = div v2 v2; ret v3 }
random, ill defined, 113 -- U func { b0(v0): print v0; ret v0 } => func { b0(v0): print v0; ret v0 }
random, ill defined, 114 -- C func { b0(v0, v1): v2 = const 2; cbr v1 b1(v2, v0) b2(); b1(v3, v4): v5 = add v2 v4; cbr v4 b3() b2(); b2(): box { b0(v6): cbr v0 b1() b1(); \
    b1(): v7 = const -3; v8 = mul v7 v7 }; print v4; v9 = const -3; sink v6 v9 v10; cbr v9 b2() b3(); b3(): v10 = add v1 v3; v11 = div v10 v10; ret v0 } \
    => func { b0(v0, v1): v2 = const 2; cbr v1 b1(v2, v0) b2(); b1(v3, v4): cbr v4 b3() b2(); b2(): print v4; v5 = const -3; cbr v5 b2() b3(); \
        b3(): v6 = add v1 v3; v7 = div v6 v6; ret v0 }
random, ill defined, 115 -- C func { b0(v0, v1): v2 = read; v3 = const 0; cbr v2 b2() b3(v2, v2); b1(v4, v5): sink; v6 = mul v4 v17; cbr v4 b2(v1, v5) b2(v17, v6); \
    b2(v7): v8 = div v7 v3; v9, v10 = pair; v11 = read; v12 = const 0; br b1(v12, v9); \
    b3(v13, v14): v15 = add v13 v14; box { b0(v16): v17 = const 0 }; v18 = mul v15 v14; sink v15; br b1(v14, v2) } \
    => func { b0(v0, v1): v2 = read; v3 = const 0; cbr v2 b2() b3(v2); b1(v4, v5): v6 = mul v4 v14; cbr v4 b2(v1, v5) b2(v14, v6); \
        b2(v7): v8 = div v7 v3; v9, v10 = pair; v11 = read; v12 = const 0; br b1(v12, v9); b3(v13): box { b0(): v14 = const 0 }; br b1(v13, v2) }
random, ill defined, 116 -- C func { b0(v0, v1): sink; v2 = div v1 v15; v3 = mul v1 v12; br b1(); b1(): v4, v5 = pair; br b2(v5, v0); \
    b2(v6, v7): v8 = const 0; print v0; box { b0(): v9, v10 = pair; scope { b0(): v11 = mul v6 v9; v12 = const 0; sink; cbr v2 b1(v11) b1(v11); \
    b1(v13): v14 = read; print v14; ret }; ret }; v15 = const 7; ret v8 } \
    => func { b0(v0, v1): v2 = div v1 v4; br b1(); b1(): br b2(); b2(): v3 = const 0; print v0; v4 = const 7; ret v3 }
random, ill defined, 117 -- U func { b0(v0, v1): v2 = div v0 v0; cbr v2 b0(v2) b0(v1, v2) } => func { b0(v0, v1): v2 = div v0 v0; cbr v2 b0(v2) b0(v1, v2) }
random, ill defined, 118 -- C func { b0(v0): sink v0 v0; sink v6; br b2(v4); b1(): v1 = mul v0 v0; v2 = mul v5 v4; cbr v1 b3() b1(); b2(v3): print v3; sink v0 v6; fork v3 b3 b1; \
    b3(): scope { b0(v4): box { b0(): sink v0 v0 v0; ret }; br b1(v4); b1(v5): cbr v5 b1(v5) b1(v5); \
    b2(v6): v7 = read; v8 = read; cbr v4 b2(v6) b2(v4) }; sink; ret v4 } \
    => func { b0(v0): br b2(v3); b1(): v1 = mul v0 v0; cbr v1 b3() b1(); b2(v2): print v2; fork v2 b3 b1; b3(): scope { b0(v3): br b1(v3); \
        b1(v4): cbr v4 b1(v4) b1(v4); b2(v5): v6 = read; v7 = read; cbr v3 b2(v5) b2(v3) }; ret v3 }
random, ill defined, 119 -- C func { b0(v0, v1): sink; v2 = const -3; cbr v0 b1() b2(v0); b1(): v3 = read; sink v8 v9; v4 = const 1; cbr v4 b1() b2(v7, v3); \
    b2(v5): v6 = add v0 v5; v7, v8 = pair; v9 = const 0; br b2(v9) } \
    => func { b0(v0, v1): cbr v0 b1() b2(); b1(): v2 = read; v3 = const 1; cbr v3 b1() b2(v2); b2(): br b2() }
random, ill defined, 120 -- C func { b0(v0): v1 = add v0 v0; cbr v1 b1(v1) b1(v1); b1(v2): v3 = read; v4 = const 2; ret } \
    => func { b0(v0): v1 = add v0 v0; cbr v1 b1() b1(); b1(): v2 = read; ret }
random, ill defined, 121 -- U func { b0(v0, v1): v2 = mul v1 v1; v3, v4 = pair; cbr v4 b0(v0, v2) b0(v4, v1) } \
    => func { b0(v0, v1): v2 = mul v1 v1; v3, v4 = pair; cbr v4 b0(v0, v2) b0(v4, v1) }
random, ill defined, 122 -- C func { b0(v0): scope { b0(): br b1(v0); b1(v1): v2 = mul v1 v1; cbr v0 b2() b1(v2); b2(v3): v4, v5 = pair; cbr v3 b2(v5) b1(v0) }; br b1(v0, v0); \
    b1(v6, v7): v8 = add v6 v6; scope v6 { b0(v9): v10 = read; v11 = mul v0 v10 }; sink v6 v2; br b1(v0, v8) } \
    => func { b0(v0): scope { b0(): br b1(v0); b1(v1): v2 = mul v1 v1; cbr v0 b2() b1(v2); b2(v3): v4, v5 = pair; cbr v3 b2(v5) b1(v0) }; br b1(v0); \
        b1(v6): scope v6 { b0(v7): v8 = read }; br b1(v0) }
random, ill defined, 123 -- C func { b0(v0, v1): box { b0(v2): scope v2 v2 { b0(v3): v4 = add v1 v3; cbr v0 b1(v3) b1(v0); \
    b1(v5): sink; v6 = const 0; br b1(v6) } }; v7 = mul v0 v1; v8 = add v3 v7; v9 = const 0; cbr v8 b1() b1(); b1(): sink; v10 = add v1 v8; ret v9 } \
    => func { b0(v0, v1): box { b0(v2): scope v2 v2 { b0(v3): cbr v0 b1() b1(); \
        b1(): br b1() } }; v4 = mul v0 v1; v5 = add v3 v4; v6 = const 0; cbr v5 b1() b1(); b1(): ret v6 }
random, ill defined, 124 -- C func { b0(v0): v1 = div v4 v0; v2, v3 = pair; br b1(v3, v3, v2); b1(v4, v5, v6): v7 = read; ret } \
    => func { b0(v0): v1 = div v4 v0; v2, v3 = pair; br b1(v3); b1(v4): v5 = read; ret }
random, ill defined, 125 -- U func { b0(v0): v1 = add v0 v0; v2 = div v1 v0; ret v0 } => func { b0(v0): v1 = add v0 v0; v2 = div v1 v0; ret v0 }
random, ill defined, 126 -- C func { b0(): box { b0(v0): box { b0(v1): sink; sink v1; v2 = const 7 }; br b0(v0) }; br b1(); b1(): v3 = add v8 v2; sink v3 v3; ret; \
    b2(v4, v5): v6, v7 = pair; v8 = read; ret v5 } \
    => func { b0(): br b1(); b1(): ret; b2(v0): v1 = read; ret v0 }
random, ill defined, 127 -- C func { b0(v0): v1 = mul v0 v0; v2, v3 = pair; v4 = mul v0 v3; v5 = read; br b1(v2, v3); \
    b1(v6, v7): sink v6; scope { b0(): sink v3; v8 = div v0 v9; br b1(v0, v8, v4); b1(v9, v10, v11): v12, v13 = pair; sink }; cbr v6 b2(v7, v7) b2(); \
    b2(v14): sink; v15 = const 0; sink; ret v5 } \
    => func { b0(v0): v1, v2 = pair; v3 = read; br b1(v1, v2); b1(v4, v5): scope { b0(): v6 = div v0 v7; br b1(v0); b1(v7): }; cbr v4 b2(v5) b2(); \
        b2(): ret v3 }
random, ill defined, 128 -- C func { b0(v0): sink; br b1(v0, v0); b1(v1, v2): v3, v4 = pair; v5 = add v4 v3; v6 = const 1; ret } => func { b0(v0): br b1(); b1(): ret }
random, ill defined, 129 -- U func { b0(v0): print v5; v1 = add v0 v4; br b1(v1); b1(): box { b0(): v2 = mul v0 v1 }; v3 = mul v4 v2; v4 = mul v3 v2; v5 = add v3 v4; ret } \
    => func { b0(v0): print v5; v1 = add v0 v4; br b1(v1); b1(): box { b0(): v2 = mul v0 v1 }; v3 = mul v4 v2; v4 = mul v3 v2; v5 = add v3 v4; ret }
random, ill defined, 130 -- C func { b0(v0): v1 = const 2; v2 = div v1 v1; cbr v1 b2() b2(v2); b1(v3): v4 = read; cbr v4 b2() b1(v4); b2(): v5 = const 0; ret } \
    => func { b0(v0): v1 = const 2; v2 = div v1 v1; cbr v1 b2() b2(v2); b1(): v3 = read; cbr v3 b2() b1(); b2(): ret }
random, ill defined, 131 -- C func { b0(): v0 = add v5 v0; v1, v2 = pair; br b1(v2); b1(v3): v4, v5 = pair; v6 = read; br b2(); \
    b2(): v7 = const -3; v8 = const 0; box { b0(): }; ret v8 } \
    => func { b0(): v0 = add v2 v0; br b1(); b1(): v1, v2 = pair; v3 = read; br b2(); b2(): v4 = const 0; ret v4 }
random, ill defined, 132 -- C func { b0(): v0 = add v7 v4; box { b0(): }; scope { b0(): ret }; v1 = const 0; cbr v1 b2() b2(); \
    b1(v2): v3 = add v2 v1; v4 = const 7; box { b0(v5): v6 = add v5 v5; cbr v6 b0() b0(v5) }; cbr v4 b1(v3) b1(v4); \
    b2(): v7 = read; v8 = const 0; v9 = const 0; cbr v8 b2() b2() } \
    => func { b0(): scope { b0(): ret }; v0 = const 0; cbr v0 b2() b2(); b1(v1): v2 = add v1 v0; v3 = const 7; cbr v3 b1(v2) b1(v3); \
        b2(): v4 = read; v5 = const 0; cbr v5 b2() b2() }
random, ill defined, 133 -- U func { b0(): print v1; box { b0(v0): v1 = read; scope v0 v0 { b0(v2): ret }; cbr v2 b1() b1(); b1(): ret }; v3 = read; cbr v3 b1(v3) b1(v3); \
    b1(v4): v5 = mul v3 v4; ret v5 } \
    => func { b0(): print v1; box { b0(v0): v1 = read; scope v0 v0 { b0(v2): ret }; cbr v2 b1() b1(); b1(): ret }; v3 = read; cbr v3 b1(v3) b1(v3); \
        b1(v4): v5 = mul v3 v4; ret v5 }
random, ill defined, 134 -- C func { b0(v0, v1): sink v0 v1; box { b0(): v2, v3 = pair; v4, v5 = pair; br b0() }; v6 = const 0; v7 = read; cbr v6 b1(v7, v0) b1(v7, v1); \
    b1(v8, v9): print v9; v10 = mul v1 v9; ret; b2(v11, v12): v13 = add v12 v11; sink v12 v10; cbr v13 b1(v13, v12) b2(v11) } \
    => func { b0(v0, v1): v2 = const 0; v3 = read; cbr v2 b1(v0) b1(v1); b1(v4): print v4; ret; b2(v5, v6): v7 = add v6 v5; cbr v7 b1(v6) b2(v5) }
random, ill defined, 135 -- C func { b0(v0): sink v2 v0; v1 = const 0; sink v0 v0; br b3(v0, v1); b1(v2, v3): v4 = const -3; sink v4 v2 v5; br b1(v3, v2, v3); \
    b2(): v5 = div v1 v0; v6 = mul v5 v5; cbr v6 b3(v6, v0, v5, v5) b3(v1, v6, v0); b3(v7, v8, v9): v10 = read; ret v7 } \
    => func { b0(v0): v1 = const 0; br b3(v0); b1(v2, v3): br b1(v3, v2, v3); b2(): v4 = div v1 v0; v5 = mul v4 v4; cbr v5 b3(v5, v4) b3(v1); \
        b3(v6): v7 = read; ret v6 }
random, ill defined, 136 -- C func { b0(v0, v1): v2, v3 = pair; v4 = const 1; v5, v6 = pair; br b2(v3); b1(v7, v8): scope { b0(): v9 = const -3; br b1(v9); \
    b1(v10, v11): sink; ret }; v12 = add v7 v7; br b1(v8, v12); b2(v13): v14 = div v13 v13; sink; v15 = const 1; br b1(v2, v2, v15) } \
    => func { b0(v0, v1): v2, v3 = pair; br b2(v3); b1(v4, v5): scope { b0(): br b1(); b1(): ret }; v6 = add v4 v4; br b1(v5, v6); \
        b2(v7): v8 = div v7 v7; v9 = const 1; br b1(v2, v2, v9) }
random, ill defined, 137 -- U func { b0(): v0 = mul v3 v2; v1 = div v0 v0; v2 = const 1; v3 = add v0 v2; ret } \
    => func { b0(): v0 = mul v3 v2; v1 = div v0 v0; v2 = const 1; v3 = add v0 v2; ret }
random, ill defined, 138 -- C func { b0(): sink v10; ret; b1(v0, v1, v2): v3, v4 = pair; v5 = read; scope { b0(): v6 = read; sink; cbr v6 b0() b0(v6) }; br b3(v0); \
    b2(v7, v8, v9): v10 = read; box { b0(): cbr v12 b0() b0() }; cbr v8 b2(v9, v9, v5) b1(v8, v10, v14); \
    b3(v11): box { b0(): }; v12 = add v11 v11; v13 = mul v11 v12; v14 = add v8 v11; br b3(v12) } \
    => func { b0(): ret; b1(v0): v1 = read; scope { b0(): v2 = read; cbr v2 b0() b0(v2) }; br b3(v0); b2(v3, v4): v5 = read; cbr v3 b2(v4, v1) b1(v3); \
        b3(v6): v7 = add v6 v6; br b3(v7) }
random, ill defined, 139 -- C func { b0(v0): v1 = add v0 v0; v2 = const 0; box { b0(): v3 = const 2; v4 = mul v1 v3; br b0(v4) }; sink v1 v2 v1; cbr v0 b1(v1) b1(v1, v1); \
    b1(v5): v6 = const 7; print v0; sink; v7 = read; ret } \
    => func { b0(v0): v1 = add v0 v0; cbr v0 b1() b1(v1); b1(): print v0; v2 = read; ret }
random, ill defined, 140 -- C func { b0(v0, v1): sink v11; v2 = const 0; cbr v2 b2(v2, v1) b2(v2, v1); b1(v3, v4): sink v4; v5 = mul v4 v0; cbr v5 b1(v5, v4, v3) b1(v1, v3, v3); \
    b2(v6, v7): v8 = const 0; box { b0(): v9 = add v1 v7; cbr v9 b0() b0() }; v10 = const 0; v11 = read; ret v11 } \
    => func { b0(v0, v1): v2 = const 0; cbr v2 b2() b2(); b1(v3, v4): v5 = mul v4 v0; cbr v5 b1(v5, v4, v3) b1(v1, v3, v3); b2(): v6 = read; ret v6 }
random, ill defined, 141 -- U func { b0(v0): v1 = read; cbr v1 b1() b1(); b1(): v2 = read; v3 = div v2 v2; ret v0 } \
    => func { b0(v0): v1 = read; cbr v1 b1() b1(); b1(): v2 = read; v3 = div v2 v2; ret v0 }
random, ill defined, 142 -- C func { b0(): v0, v1 = pair; v2 = mul v0 v1; cbr v2 b2(v2, v0) b1(v6); b1(v3): v4 = const 1; sink v6 v3 v4; cbr v2 b2(v3, v4) b3(); \
    b2(v5, v6): v7 = const 2; cbr v7 b2(v5, v7) b3(v7); b3(v8): sink; v9 = add v8 v8; cbr v9 b1(v9) b3() } \
    => func { b0(): v0, v1 = pair; v2 = mul v0 v1; cbr v2 b2(v2, v0) b1(v6); b1(v3): v4 = const 1; cbr v2 b2(v3, v4) b3(); \
        b2(v5, v6): v7 = const 2; cbr v7 b2(v5, v7) b3(v7); b3(v8): v9 = add v8 v8; cbr v9 b1(v9) b3() }
random, ill defined, 143 -- C func { b0(v0): v1 = div v0 v0; v2 = add v1 v1; v3 = read; print v3; br b1(v1); b1(v4): v5 = add v0 v4; v6 = mul v5 v5; ret v1 } \
    => func { b0(v0): v1 = div v0 v0; v2 = read; print v2; br b1(); b1(): ret v1 }
random, ill defined, 144 -- C func { b0(v0, v1): v2 = add v1 v6; v3 = add v1 v0; cbr v2 b2() b2(); b1(v4, v5, v6): v7 = const 7; sink v8 v2 v5; sink; br b1(v4, v6); \
    b2(): v8 = const 0; v9 = const 0; ret v8 } \
    => func { b0(v0, v1): v2 = add v1 v4; cbr v2 b2() b2(); b1(v3, v4): br b1(v3); b2(): v5 = const 0; ret v5 }
random, ill defined, 145 -- U func { b0(v0, v1): v2 = read; cbr v1 b1(v2) b1(v1); b1(): v3 = read; ret v1 } => func { b0(v0, v1): v2 = read; cbr v1 b1(v2) b1(v1); b1(): v3 = read; ret v1 }
random, ill defined, 146 -- C func { b0(): v0 = add v1 v0; v1 = add v0 v0; v2 = div v0 v1; v3 = add v0 v1; br b1(v3); b1(): v4 = add v0 v2; sink v4 v0 v4; br b1(); \
    b2(): v5 = const 1; scope v4 { b0(v6): ret }; v7 = add v5 v5; br b2(v5) } \
    => func { b0(): v0 = add v1 v0; v1 = add v0 v0; v2 = div v0 v1; v3 = add v0 v1; br b1(v3); b1(): v4 = add v0 v2; br b1(); \
        b2(): v5 = const 1; scope v4 { b0(v6): ret }; br b2(v5) }
random, ill defined, 147 -- C func { b0(v0, v1): v2 = const -3; sink v2 v0 v1; cbr v2 b2(v2, v0) b1(); b1(): v3 = const 1; v4, v5 = pair; br b1(); \
    b2(v6, v7): v8 = add v7 v6; print v0; v9 = read; cbr v4 b1() b2(v8, v9, v7); b3(v10, v11): sink v11 v11; ret v10 } \
    => func { b0(v0, v1): v2 = const -3; cbr v2 b2(v2, v0) b1(); b1(): v3, v4 = pair; br b1(); \
        b2(v5, v6): v7 = add v6 v5; print v0; v8 = read; cbr v3 b1() b2(v7, v8, v6); b3(v9): ret v9 }
random, ill defined, 148 -- C func { b0(v0): v1 = read; print v1; v2, v3 = pair; cbr v0 b1(v2, v3, v2) b1(v1, v0, v1); b1(v4, v5, v6): v7, v8 = pair; sink v5 v1; ret v4 } \
    => func { b0(v0): v1 = read; print v1; v2, v3 = pair; cbr v0 b1(v2) b1(v1); b1(v4): ret v4 }
random, ill defined, 149 -- U func { b0(v0, v1): v2, v3 = pair; br b0(v2, v3, v0) } => func { b0(v0, v1): v2, v3 = pair; br b0(v2, v3, v0) }
random, ill defined, 150 -- C func { b0(): sink v0 v0 v0; sink v0 v0; v0 = read; ret v0 } => func { b0(): v0 = read; ret v0 }
random, ill defined, 151 -- C func { b0(v0, v1): v2 = div v1 v1; v3 = read; cbr v0 b2(v3, v4, v0) b2(v3, v3, v2); \
    b1(v4, v5): v6 = const 2; v7 = add v5 v4; cbr v6 b2(v7, v7, v1) b2(v4, v5, v5); \
    b2(v8, v9, v10): print v0; print v10; sink; cbr v9 b2(v10, v2, v10, v10) b2(v9, v9, v1) } \
    => func { b0(v0, v1): v2 = div v1 v1; v3 = read; cbr v0 b2(v4, v0) b2(v3, v2); b1(v4, v5): v6 = const 2; v7 = add v5 v4; cbr v6 b2(v7, v1) b2(v5, v5); \
        b2(v8, v9): print v0; print v9; cbr v8 b2(v2, v9, v9) b2(v8, v1) }
random, ill defined, 152 -- C func { b0(v0): v1 = div v11 v12; br b2(); b1(v2): v3 = add v2 v3; scope v6 { b0(v4): cbr v4 b1(v0, v10) b1(v4, v4); b1(v5, v6): v7 = mul v11 v6; ret; \
    b2(v8, v9, v10): v11 = add v8 v2 }; box { b0(): }; br b2(); b2(): sink v1 v0; v12 = read; box { b0(): v13 = const 7; cbr v1 b1(v12) b1(v13); \
    b1(v14): v15 = const 1 }; ret v12 } \
    => func { b0(v0): v1 = div v8 v9; br b2(); b1(v2): v3 = add v2 v3; scope v5 { b0(v4): cbr v4 b1(v7) b1(v4); b1(v5): ret; \
        b2(v6, v7): v8 = add v6 v2 }; br b2(); b2(): v9 = read; ret v9 }
random, ill defined, 153 -- U func { b0(v0, v1): v2 = div v0 v3; v3 = const 7; ret v0 } => func { b0(v0, v1): v2 = div v0 v3; v3 = const 7; ret v0 }
random, ill defined, 154 -- C func { b0(v0, v1): v2 = const 0; v3 = read; v4 = add v3 v1; cbr v1 b2() b1(v11, v2, v0, v1); \
    b1(v5, v6, v7): sink v6 v8 v5; sink v7 v7; v8 = div v5 v7; v9 = add v2 v4; cbr v8 b1(v9, v8, v5) b1(v9, v3, v6); \
    b2(): v10 = mul v1 v1; v11 = const -3; v12, v13 = pair; box { b0(): v14 = const 0 }; ret v12 } \
    => func { b0(v0, v1): v2 = const 0; v3 = read; v4 = add v3 v1; cbr v1 b2() b1(v10, v2, v0, v1); \
        b1(v5, v6, v7): v8 = div v5 v7; v9 = add v2 v4; cbr v8 b1(v9, v8, v5) b1(v9, v3, v6); b2(): v10 = const -3; v11, v12 = pair; ret v11 }
random, ill defined, 155 -- C func { b0(v0): sink v0 v0 v0; v1 = div v0 v0; cbr v0 b1() b2(v1, v0); \
    b1(): v2, v3 = pair; v4, v5 = pair; scope { b0(v6): sink v6 v5; scope v6 v6 { b0(v7): v8 = add v4 v7; v9 = mul v7 v7; sink v9; ret }; print v6; \
    br b0(v6) }; cbr v1 b1() b1(); b2(v10, v11): v12 = add v1 v10; ret } \
    => func { b0(v0): v1 = div v0 v0; cbr v0 b1() b2(); b1(): scope { b0(v2): scope v2 v2 { b0(v3): ret }; print v2; br b0(v2) }; cbr v1 b1() b1(); \
        b2(): ret }
random, ill defined, 156 -- C func { b0(v0): v1 = const 7; v2 = const -3; cbr v1 b1(v0, v1) b2(v11, v1); \
    b1(v3, v4): sink; scope { b0(): scope v3 v3 { b0(v5, v6): v7 = add v6 v6; v8 = mul v7 v5; ret } }; cbr v3 b1(v4, v3) b1(v4); \
    b2(v9, v10): sink v10 v9 v9; v11 = read; br b1(v11, v11, v10) } \
    => func { b0(v0): v1 = const 7; cbr v1 b1(v0, v1) b2(v1); b1(v2, v3): scope { b0(): scope v2 v2 { b0(v4, v5): ret } }; cbr v2 b1(v3, v2) b1(v3); \
        b2(v6): v7 = read; br b1(v7, v7, v6) }
random, ill defined, 157 -- U func { b0(v0): v1 = const -3; ret v1 } => func { b0(v0): v1 = const -3; ret v1 }
random, ill defined, 158 -- C func { b0(v0, v1): v2 = div v1 v0; v3 = add v2 v1; br b1(v2, v1); b1(v4, v5): v6 = read; sink; v7, v8 = pair; v9, v10 = pair; cbr v9 b3() b1(v5); \
    b2(v11, v12, v13): v14 = mul v11 v13; v15 = read; v16 = const 7; v17 = const 0; cbr v16 b3() b2(v12, v13, v14); b3(): v18 = mul v1 v0; fork v18 b2 b3 } \
    => func { b0(v0, v1): v2 = div v1 v0; br b1(); b1(): v3 = read; v4, v5 = pair; cbr v4 b3() b1(); \
        b2(v6, v7, v8): v9 = mul v6 v8; v10 = read; v11 = const 7; cbr v11 b3() b2(v7, v8, v9); b3(): v12 = mul v1 v0; fork v12 b2 b3 }
random, ill defined, 159 -- C func { b0(): v0 = const 0; print v0; v1 = mul v0 v6; v2 = add v0 v0; br b1(); b1(v3): v4 = add v1 v3; br b1(v4); b2(v5, v6, v7): v8, v9 = pair; ret v1 } \
    => func { b0(): v0 = const 0; print v0; v1 = mul v0 v4; br b1(); b1(v2): v3 = add v1 v2; br b1(v3); b2(v4): ret v1 }
random, ill defined, 160 -- C func { b0(): scope v7 v6 { b0(v0): cbr v11 b2() b1(v0); b1(v1): v2 = add v1 v1; v3 = mul v2 v2; cbr v2 b2() b2(); \
    b2(): v4 = mul v9 v9; v5 = mul v4 v4; br b2() }; v6, v7 = pair; br b1(); b1(): sink v6 v0 v7; ret; \
    b2(v8, v9): sink v6 v0; v10, v11 = pair; sink v11 v9 v9; v12 = add v10 v10; ret } \
    => func { b0(): scope v4 v3 { b0(v0): cbr v6 b2() b1(v0); b1(v1): v2 = add v1 v1; cbr v2 b2() b2(); b2(): br b2() }; v3, v4 = pair; br b1(); b1(): ret; \
        b2(): v5, v6 = pair; ret }
random, ill defined, 161 -- U func { b0(v0): v1 = add v0 v0; br b0(v1, v0) } => func { b0(v0): v1 = add v0 v0; br b0(v1, v0) }
random, ill defined, 162 -- C func { b0(v0): box { b0(): v1 = add v0 v2; v2 = const 2 }; v3 = read; v4 = const -3; v5, v6 = pair; ret } => func { b0(v0): v1 = read; ret }
random, ill defined, 163 -- C func { b0(v0): v1 = const 0; v2, v3 = pair; v4 = mul v1 v0; v5 = const 0; cbr v3 b2(v5) b2(v2); \
    b1(v6, v7): v8 = const -3; sink v5; box { b0(): box { b0(): sink v7 }; ret }; sink v10; br b1(v8, v7); \
    b2(v9): v10 = read; v11, v12 = pair; cbr v0 b2(v11) b1(v1, v12, v2) } \
    => func { b0(v0): v1, v2 = pair; cbr v2 b2() b2(); b1(v3): br b1(v3); b2(): v4 = read; v5, v6 = pair; cbr v0 b2() b1(v6, v1) }
random, ill defined, 164 -- C func { b0(v0): v1 = const 2; fork v0 b2 b2; b1(): box { b0(v2): v3 = const 7; scope v0 { b0(v4): v5 = read; cbr v5 b1(v5, v4) b1(v4); \
    b1(v6, v7): v8 = div v6 v5; br b1(v8, v8, v6) }; v9 = add v8 v3; ret }; ret v0; b2(): v10 = read; v11 = read; sink v7; sink v11 v0; cbr v1 b2() b1() } \
    => func { b0(v0): v1 = const 2; fork v0 b2 b2; b1(): ret v0; b2(): v2 = read; v3 = read; cbr v1 b2() b1() }
random, ill defined, 165 -- U func { b0(v0): v1 = mul v0 v0; v2 = div v0 v0; br b1(); b1(): v3 = const 0; box { b0(): v4 = const 2; print v4; ret }; scope v3 v1 { b0(v5): v6 = read; \
    ret }; v7 = div v4 v3; ret v3 } \
    => func { b0(v0): v1 = mul v0 v0; v2 = div v0 v0; br b1(); b1(): v3 = const 0; box { b0(): v4 = const 2; print v4; ret }; \
        scope v3 v1 { b0(v5): v6 = read; ret }; v7 = div v4 v3; ret v3 }
random, ill defined, 166 -- C func { b0(): v0 = read; v1, v2 = pair; cbr v1 b1(v2, v2) b1(v1, v2); b1(v3, v4): v5 = const -3; v6 = read; fork v4 b1 b1 } \
    => func { b0(): v0 = read; v1, v2 = pair; cbr v1 b1(v2, v2) b1(v1, v2); b1(v3, v4): v5 = read; fork v4 b1 b1 }
random, ill defined, 167 -- C func { b0(v0): sink v0 v0; v1 = const 2; scope v0 { b0(): v2 = read; v3 = add v2 v2; br b1(v2); \
    b1(v4, v5): br b1(v4, v4) }; cbr v1 b1(v0, v0, v0) b1(v0, v0); b1(v6, v7): v8 = const 1; ret v6 } \
    => func { b0(v0): v1 = const 2; scope v0 { b0(): v2 = read; br b1(v2); b1(v3): br b1(v3) }; cbr v1 b1(v0, v0) b1(v0); b1(v4): ret v4 }
random, ill defined, 168 -- C func { b0(): v0 = div v1 v5; box { b0(): v1, v2 = pair; v3 = const 7; cbr v1 b1() b1(); \
    b1(): box { b0(v4): v5, v6 = pair; sink v9 }; v7, v8 = pair; box { b0(): v9 = const 0; cbr v2 b1() b1(); \
    b1(): print v3; v10 = const 1; v11, v12 = pair; cbr v10 b1() b1() }; cbr v7 b1() b1() }; sink; ret } \
    => func { b0(): v0 = div v1 v3; box { b0(): v1, v2 = pair; cbr v1 b1() b1(); b1(): box { b0(): v3, v4 = pair }; v5, v6 = pair; cbr v5 b1() b1() }; ret }
random, ill defined, 169 -- U func { b0(v0): v1 = div v0 v0; br b0() } => func { b0(v0): v1 = div v0 v0; br b0() }
random, ill defined, 170 -- C func { b0(): v0, v1 = pair; v2 = mul v1 v1; cbr v0 b1(v2, v2) b1(v1, v0); b1(v3, v4): v5 = const 2; ret v4 } \
    => func { b0(): v0, v1 = pair; v2 = mul v1 v1; cbr v0 b1(v2) b1(v0); b1(v3): ret v3 }
random, ill defined, 171 -- C func { b0(v0, v1): v2 = read; cbr v2 b1(v2, v1) b2(v2); b1(v3, v4): print v3; v5 = const 0; cbr v4 b2(v4) b1(v3, v3); b2(v6): v7 = mul v6 v6; ret v1 } \
    => func { b0(v0, v1): v2 = read; cbr v2 b1(v2, v1) b2(); b1(v3, v4): print v3; cbr v4 b2() b1(v3, v3); b2(): ret v1 }
random, ill defined, 172 -- C func { b0(v0): sink; print v0; box { b0(): v1 = const 2; fork v1 b0 b0 }; cbr v0 b1(v0) b2(v0); b1(v2): sink v2 v2 v2; v3 = const -3; cbr v0 b1(v2) b1(v2); \
    b2(v4): v5 = add v4 v4; sink v0 v4 v4; sink v2; ret } \
    => func { b0(v0): print v0; cbr v0 b1(v0) b2(); b1(v1): cbr v0 b1(v1) b1(v1); b2(): ret }
random, ill defined, 173 -- U func { b0(v0, v1): ret v0 } => func { b0(v0, v1): ret v0 }
random, ill defined, 174 -- C func { b0(): v0 = const 2; scope v0 v0 { b0(): v1 = div v0 v0; cbr v0 b1(v1, v1) b1(v3, v1); b1(v2, v3): v4 = read; ret }; v5 = const -3; cbr v0 b1() b1(); \
    b1(): v6 = const 1; ret v6 } \
    => func { b0(): v0 = const 2; scope v0 v0 { b0(): v1 = div v0 v0; cbr v0 b1() b1(); b1(): v2 = read; ret }; cbr v0 b1() b1(); b1(): v3 = const 1; ret v3 }
random, ill defined, 175 -- C func { b0(v0): sink v0 v7; sink v4; cbr v0 b2(v0, v0) b2(v0, v0, v2); b1(v1, v2, v3): v4 = add v3 v1; v5 = add v8 v2; cbr v1 b1(v3, v3) b1(v1, v2, v4); \
    b2(v6, v7): v8 = const 1; v9 = add v6 v8; v10, v11 = pair; ret v0 } \
    => func { b0(v0): cbr v0 b2() b2(v2); b1(v1, v2, v3): v4 = add v3 v1; cbr v1 b1(v3, v3) b1(v1, v2, v4); b2(): ret v0 }
random, ill defined, 176 -- C func { b0(v0, v1): v2 = const -3; br b2(v2, v0, v1); b1(v3): v4 = const 0; box { b0(v5): v6 = add v3 v5; sink v0 v5; cbr v5 b1(v5) b1(); \
    b1(): br b1() }; cbr v1 b1(v0) b1(v0); b2(v7, v8, v9): v10 = add v2 v9; v11 = read; fork v9 b1 b1; b3(v12): v13 = mul v12 v9; v14 = const 7; ret v12 } \
    => func { b0(v0, v1): br b2(v1); b1(v2): cbr v1 b1(v0) b1(v0); b2(v3): v4 = read; fork v3 b1 b1; b3(v5): ret v5 }
random, ill defined, 177 -- U func { b0(): v0 = mul v0 v1; v1 = read; ret v0 } => func { b0(): v0 = mul v0 v1; v1 = read; ret v0 }
random, ill defined, 178 -- C func { b0(v0): sink; sink v0 v0 v0; sink v0 v0 v0; ret v0 } => func { b0(v0): ret v0 }
random, ill defined, 179 -- C func { b0(v0, v1): print v1; v2 = add v1 v0; v3 = const 0; cbr v3 b1(v3, v3) b2(); \
    b1(v4): box { b0(v5): v6 = read; v7 = mul v1 v4; ret }; cbr v4 b2() b1(v3); b2(): box { b0(): v8, v9 = pair; br b1(); \
    b1(): v10 = const 0; cbr v9 b1() b1() }; v11 = read; ret } \
    => func { b0(v0, v1): print v1; v2 = const 0; cbr v2 b1(v2, v2) b2(); b1(v3): cbr v3 b2() b1(v2); b2(): v4 = read; ret }
random, ill defined, 180 -- C func { b0(): v0 = const 2; cbr v0 b2() b2(); b1(): v1, v2 = pair; v3 = const -3; ret; b2(): v4 = mul v0 v0; v5 = add v4 v4; v6 = div v4 v7; br b3(v4, v6); \
    b3(v7, v8): sink; v9 = const 1; cbr v9 b2() b3(v9) } \
    => func { b0(): v0 = const 2; cbr v0 b2() b2(); b1(): ret; b2(): v1 = mul v0 v0; v2 = div v1 v3; br b3(v1); b3(v3): v4 = const 1; cbr v4 b2() b3(v4) }
random, ill defined, 181 -- U func { b0(v0, v1): v2 = read; v3 = mul v1 v2; br b0(v3, v0) } => func { b0(v0, v1): v2 = read; v3 = mul v1 v2; br b0(v3, v0) }
random, ill defined, 182 -- C func { b0(v0, v1): v2 = read; box { b0(): v3 = add v1 v2; v4 = div v3 v3; br b1(); \
    b1(): v5 = const 1; v6 = div v5 v6; v7 = mul v5 v5; ret }; cbr v9 b1() b3(v2, v2); b1(): v8 = mul v0 v1; sink v8; br b1(v0); \
    b2(v9): v10 = read; v11 = const 1; v12 = const 0; v13 = div v9 v9; ret; b3(v14, v15): v16 = add v15 v14; ret v14 } \
    => func { b0(v0, v1): v2 = read; cbr v3 b1() b3(v2); b1(): br b1(v0); b2(v3): v4 = read; v5 = div v3 v3; ret; b3(v6): ret v6 }
random, ill defined, 183 -- C func { b0(): v0 = const 0; br b2(v0, v0); b1(v1): box { b0(): v2 = const 2; sink v5 v2 v2; cbr v2 b1() b1(); \
    b1(): sink v0 v1; ret }; v3 = const 0; br b1(v3, v1); b2(v4): v5 = const 2; cbr v5 b2(v5) b1(v0) } \
    => func { b0(): v0 = const 0; br b2(v0); b1(v1): v2 = const 0; br b1(v2, v1); b2(): v3 = const 2; cbr v3 b2() b1(v0) }
random, ill defined, 184 -- C func { b0(v0, v1): v2 = read; v3 = add v9 v0; v4 = const 0; sink v4 v0; cbr v1 b1(v2, v1) b1(v0); \
    b1(v5, v6): v7 = read; scope { b0(): v8 = const 1 }; v9 = div v2 v6; v10 = const 1; ret v7 } \
    => func { b0(v0, v1): v2 = read; cbr v1 b1(v1) b1(); b1(v3): v4 = read; scope { b0(): }; v5 = div v2 v3; ret v4 }
random, ill defined, 185 -- U func { b0(v0): v1 = add v0 v0; ret v1 } => func { b0(v0): v1 = add v0 v0; ret v1 }
random, ill defined, 186 -- C func { b0(v0): sink v0 v0; v1 = div v3 v10; scope v7 v1 { b0(v2): ret }; br b1(); \
    b1(v3): box { b0(): v4 = add v1 v1; v5 = div v4 v4; v6 = add v4 v5; cbr v5 b0() b0() }; v7 = div v3 v3; br b2(); \
    b2(v8): v9 = add v8 v8; v10 = const 0; v11 = const -3; cbr v3 b2(v10) b2(v9, v10) } \
    => func { b0(v0): v1 = div v3 v7; scope v4 v1 { b0(v2): ret }; br b1(); b1(v3): v4 = div v3 v3; br b2(); \
        b2(v5): v6 = add v5 v5; v7 = const 0; cbr v3 b2(v7) b2(v6, v7) }
random, ill defined, 187 -- C func { b0(v0, v1): box { b0(v2): sink v2 v2 v2; br b0(v2) }; br b1(v1); b1(): v3 = mul v1 v0; ret } => func { b0(v0, v1): br b1(v1); b1(): ret }
random, ill defined, 188 -- C func { b0(v0): v1 = read; v2 = div v0 v6; sink; v3 = div v1 v0; br b1(v3, v5); b1(v4, v5): scope v3 { b0(v6): v7 = add v6 v6 }; br b1(v5, v5) } \
    => func { b0(v0): v1 = read; v2 = div v0 v5; v3 = div v1 v0; br b1(v4); b1(v4): scope v3 { b0(v5): }; br b1(v4) }
random, ill defined, 189 -- U func { b0(): v0 = div v5 v2; v1 = const 1; v2 = add v0 v0; cbr v0 b1(v0, v2) b1(v0, v0, v0); b1(v3, v4): v5 = mul v1 v1; v6 = mul v5 v3; print v6; ret v4 } \
    => func { b0(): v0 = div v5 v2; v1 = const 1; v2 = add v0 v0; cbr v0 b1(v0, v2) b1(v0, v0, v0); \
        b1(v3, v4): v5 = mul v1 v1; v6 = mul v5 v3; print v6; ret v4 }
random, ill defined, 190 -- C func { b0(v0): print v0; v1 = mul v2 v0; v2 = add v2 v0; ret } => func { b0(v0): print v0; v1 = add v1 v0; ret }
random, ill defined, 191 -- C func { b0(): sink v6 v10; scope v5 v10 { b0(v0, v1): v2 = add v0 v0; v3, v4 = pair; br b2(v2, v1); \
    b1(v5, v6): v7 = const -3; v8 = add v7 v7; v9 = const 1; cbr v6 b2(v5, v9) b1(v5, v15); \
    b2(v10, v11): v12 = add v2 v4; ret }; cbr v4 b1(v12, v2) b1(v9, v13); b1(v13, v14): v15 = const -3; ret v15 } \
    => func { b0(): scope v5 v7 { b0(v0, v1): v2 = add v0 v0; v3, v4 = pair; br b2(v2); b1(v5, v6): cbr v6 b2(v5) b1(v5, v8); \
        b2(v7): ret }; cbr v4 b1() b1(); b1(): v8 = const -3; ret v8 }
random, ill defined, 192 -- C func { b0(v0): v1 = read; print v1; cbr v1 b1() b1(); b1(): v2, v3 = pair; print v3; br b2(v3, v1); b2(v4, v5): v6 = add v5 v4; v7 = read; ret v7 } \
    => func { b0(v0): v1 = read; print v1; cbr v1 b1() b1(); b1(): v2, v3 = pair; print v3; br b2(); b2(): v4 = read; ret v4 }
random, ill defined, 193 -- U func { b0(): scope v0 { b0(v0): ret }; cbr v0 b0(v0) b0() } => func { b0(): scope v0 { b0(v0): ret }; cbr v0 b0(v0) b0() }
random, ill defined, 194 -- C func { b0(v0): v1 = div v0 v1; v2 = const 7; br b2(); b1(v3, v4, v5): v6 = const 2; box { b0(): v7 = div v3 v2; ret }; v8 = const 2; br b2(); \
    b2(): print v2; sink v0 v0 v0; cbr v2 b2() b2() } \
    => func { b0(v0): v1 = div v0 v1; v2 = const 7; br b2(); b1(): br b2(); b2(): print v2; cbr v2 b2() b2() }
random, ill defined, 195 -- C func { b0(v0): sink v0; v1 = add v0 v5; v2, v3 = pair; br b1(v2, v2, v1); \
    b1(v4, v5, v6): v7 = read; v8 = add v4 v7; v9 = read; box { b0(): v10 = add v12 v3; v11, v12 = pair; v13 = const 7 }; ret v7 } \
    => func { b0(v0): br b1(); b1(): v1 = read; v2 = read; ret v1 }
random, ill defined, 196 -- C func { b0(): sink v2; v0, v1 = pair; sink; br b1(v0, v1, v1); b1(v2, v3): v4 = read; v5 = add v4 v2; ret v1 } \
    => func { b0(): v0, v1 = pair; br b1(v1); b1(): v2 = read; ret v1 }
random, ill defined, 197 -- U func { b0(): v0 = div v2 v1; v1 = const 7; v2 = add v2 v0; ret v1 } => func { b0(): v0 = div v2 v1; v1 = const 7; v2 = add v2 v0; ret v1 }
random, ill defined, 198 -- C func { b0(): v0 = div v1 v2; cbr v0 b1(v0) b1(v0); b1(v1): v2 = read; v3 = add v0 v3; sink v1 v1; ret } \
    => func { b0(): v0 = div v1 v2; cbr v0 b1(v0) b1(v0); b1(v1): v2 = read; v3 = add v0 v3; ret }
random, ill defined, 199 -- C func { b0(): sink v3 v1; v0 = read; v1 = mul v0 v4; br b2(v0, v1, v0, v1); b1(): sink v1 v3; br b1(); \
    b2(v2, v3, v4): sink v2 v2; sink v4 v2; v5 = read; ret v4 } \
    => func { b0(): v0 = read; v1 = mul v0 v2; br b2(v0, v1); b1(): br b1(); b2(v2): v3 = read; ret v2 }
random, ill defined, 200 -- C func { b0(v0): sink v0; v1 = const 2; cbr v0 b2(v1) b1(v1, v1, v1); b1(v2, v3, v4): sink; v5 = const 0; v6 = read; v7 = read; cbr v6 b2() b3(v11, v5); \
    b2(v8): v9 = const 2; sink v8; cbr v9 b2(v8) b1(v9, v8, v1); b3(v10, v11): sink v0 v11; v12, v13 = pair; cbr v10 b2() b1(v13, v10) } \
    => func { b0(v0): v1 = const 2; cbr v0 b2(v1) b1(); b1(): v2 = const 0; v3 = read; v4 = read; cbr v3 b2() b3(v8, v2); \
        b2(v5): v6 = const 2; cbr v6 b2(v5) b1(); b3(v7, v8): cbr v7 b2() b1() }";
