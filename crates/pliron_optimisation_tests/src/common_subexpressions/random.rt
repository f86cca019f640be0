//! Well-defined texts made at random, and what is left of them, as in `cases`: `tools/expected` erases any operation
//! that another one dominates and that does the same, until none is left.

pub static RANDOM: &str = "\
random 1 -- C func { b0(v0, v1): v2 = add v0 v1; scope { b0(v3): ret v0 }; v4 = add v1 v2; v5 = add v0 v1; cbr \
    v0 b0(v1, v4) b0(v1, v5); b1(v6): v7 = add v6 v6; br b1(v7) } => func { b0(v0, v1): v2 = add v0 v1; scope { \
    b0(v3): ret v0 }; v4 = add v1 v2; cbr v0 b0(v1, v4) b0(v1, v2); b1(v5): v6 = add v5 v5; br b1(v6) }
random 2 -- U func { b0(v0): box { b0(v1, v2): v3 = div v0 v1; box { b0(): sink; print v3; cbr v3 b0() b0() }; \
    scope v0 v2 { b0(v4): ret }; v5 = add v1 v2; br b1(v5, v5); b1(v6, v7): cbr v2 b0(v5, v3) b3(v6); b2(): br \
    b3(v0); b3(v8): v9 = add v0 v6; br b2() }; v10 = const 0; v11 = add v0 v10; v12 = add v11 v0; ret; b1(): \
    v13, v14 = pair; v15 = div v13 v14; v16 = read; br b2(); b2(): v17, v18 = pair; v19, v20 = pair; v21 = add \
    v20 v20; ret v21 v17; b3(): v22 = read; v23 = div v22 v22; v24 = add v23 v22; v25 = read; ret } => func { \
    b0(v0): box { b0(v1, v2): v3 = div v0 v1; box { b0(): sink; print v3; cbr v3 b0() b0() }; scope v0 v2 { \
    b0(v4): ret }; v5 = add v1 v2; br b1(v5, v5); b1(v6, v7): cbr v2 b0(v5, v3) b3(v6); b2(): br b3(v0); b3(v8): \
    v9 = add v0 v6; br b2() }; v10 = const 0; v11 = add v0 v10; v12 = add v11 v0; ret; b1(): v13, v14 = pair; \
    v15 = div v13 v14; v16 = read; br b2(); b2(): v17, v18 = pair; v19, v20 = pair; v21 = add v20 v20; ret v21 \
    v17; b3(): v22 = read; v23 = div v22 v22; v24 = add v23 v22; v25 = read; ret }
random 3 -- C func { b0(v0): box { b0(v1, v2): scope v1 v2 { b0(v3, v4): v5, v6 = pair; ret v3; b1(): v7, v8 = \
    pair; v9 = const 0; ret v7 }; v10 = const 1; v11 = add v2 v0; ret v1 v10 }; v12 = add v0 v0; v13 = const 1; \
    v14 = mul v12 v12; cbr v14 b2() b3(v12, v14); b1(v15): br b0(v22); b2(): v16 = add v0 v12; v17 = add v0 v0; \
    v18 = read; br b2(); b3(v19, v20): v21, v22 = pair; sink; v23 = add v0 v12; cbr v20 b3(v20, v23) b1(v0) } => \
    func { b0(v0): box { b0(v1, v2): scope v1 v2 { b0(v3, v4): v5, v6 = pair; ret v3; b1(): v7, v8 = pair; v9 = \
    const 0; ret v7 }; v10 = const 1; v11 = add v2 v0; ret v1 v10 }; v12 = add v0 v0; v13 = const 1; v14 = mul \
    v12 v12; cbr v14 b2() b3(v12, v14); b1(v15): br b0(v21); b2(): v16 = add v0 v12; v17 = read; br b2(); \
    b3(v18, v19): v20, v21 = pair; sink; v22 = add v0 v12; cbr v19 b3(v19, v22) b1(v0) }
random 4 -- U func { b0(v0): v1, v2 = pair; v3 = add v0 v0; br b1(); b1(): v4 = add v2 v2; v5 = add v1 v0; v6 = \
    read; scope { b0(): v7 = add v1 v1; ret v1; b1(v8, v9): v10 = add v1 v1; v11 = div v0 v0; v12, v13 = pair; \
    br b1(v0, v0) }; cbr v1 b1() b1(); b2(v14): v15 = add v14 v14; br b1() } => func { b0(v0): v1, v2 = pair; v3 \
    = add v0 v0; br b1(); b1(): v4 = add v2 v2; v5 = add v1 v0; v6 = read; scope { b0(): v7 = add v1 v1; ret v1; \
    b1(v8, v9): v10 = add v1 v1; v11 = div v0 v0; v12, v13 = pair; br b1(v0, v0) }; cbr v1 b1() b1(); b2(v14): \
    v15 = add v14 v14; br b1() }
random 5 -- U func { b0(v0, v1): v2 = mul v1 v0; v3 = read; scope v2 v2 { b0(): v4 = read; v5 = add v1 v0; v6 = \
    add v1 v1; ret v0 v6; b1(v7): ret }; ret } => func { b0(v0, v1): v2 = mul v1 v0; v3 = read; scope v2 v2 { \
    b0(): v4 = read; v5 = add v1 v0; v6 = add v1 v1; ret v0 v6; b1(v7): ret }; ret }
random 6 -- C func { b0(): v0, v1 = pair; v2 = mul v0 v1; print v1; scope { b0(): scope v1 { b0(v3, v4): v5, v6 \
    = pair; v7 = add v0 v1; print v0; cbr v6 b0(v2, v4) b0(v1, v3); b1(): br b1(); b2(): sink; print v1; br b1() \
    }; v8 = div v0 v1; v9 = add v8 v1; box { b0(): v10 = add v0 v0; v11 = add v0 v0; br b3(v11, v1); b1(): v12 = \
    add v0 v0; sink; sink v1 v8; print v0; br b3(v9, v12); b2(): v13 = add v9 v9; v14 = const 1; v15 = add v0 \
    v0; br b1(); b3(v16, v17): v18 = const 1; v19 = const 1; cbr v1 b3(v1, v17) b0() }; ret }; ret v0; b1(): \
    v20, v21 = pair; ret v20 v21 } => func { b0(): v0, v1 = pair; v2 = mul v0 v1; print v1; scope { b0(): scope \
    v1 { b0(v3, v4): v5, v6 = pair; v7 = add v0 v1; print v0; cbr v6 b0(v2, v4) b0(v1, v3); b1(): br b1(); b2(): \
    sink; print v1; br b1() }; v8 = div v0 v1; v9 = add v8 v1; box { b0(): v10 = add v0 v0; br b3(v10, v1); \
    b1(): v11 = add v0 v0; sink; sink v1 v8; print v0; br b3(v9, v11); b2(): v12 = add v9 v9; v13 = const 1; v14 \
    = add v0 v0; br b1(); b3(v15, v16): v17 = const 1; cbr v1 b3(v1, v16) b0() }; ret }; ret v0; b1(): v18, v19 \
    = pair; ret v18 v19 }
random 7 -- C func { b0(v0, v1): print v1; sink; br b2(); b1(v2): v3, v4 = pair; ret; b2(): scope v0 v0 { b0(): \
    print v1; v5 = add v0 v0; v6 = add v1 v0; br b1(v5); b1(v7): cbr v0 b3() b1(v6); b2(v8, v9): v10, v11 = \
    pair; v12 = add v10 v7; v13 = add v1 v0; v14 = add v9 v0; br b1(v14); b3(): cbr v0 b2(v6, v5) b3() }; print \
    v1; ret v0 v1 } => func { b0(v0, v1): print v1; sink; br b2(); b1(v2): v3, v4 = pair; ret; b2(): scope v0 v0 \
    { b0(): print v1; v5 = add v0 v0; v6 = add v1 v0; br b1(v5); b1(v7): cbr v0 b3() b1(v6); b2(v8, v9): v10, \
    v11 = pair; v12 = add v10 v7; v13 = add v9 v0; br b1(v13); b3(): cbr v0 b2(v6, v5) b3() }; print v1; ret v0 \
    v1 }
random 8 -- C func { b0(): v0 = const 1; v1 = add v0 v0; v2, v3 = pair; br b1(); b1(): scope v2 { b0(): v4 = div \
    v3 v0; v5 = add v0 v0; v6 = add v1 v0; ret v1 }; v7 = div v2 v3; scope { b0(): v8 = add v1 v1; cbr v2 b0() \
    b3(v3, v8); b1(): v9 = read; print v0; v10, v11 = pair; sink; cbr v3 b3(v3, v2) b2(); b2(): ret; b3(v12, \
    v13): cbr v7 b0() b2() }; v14 = read; br b0() } => func { b0(): v0 = const 1; v1 = add v0 v0; v2, v3 = pair; \
    br b1(); b1(): scope v2 { b0(): v4 = div v3 v0; v5 = add v1 v0; ret v1 }; v6 = div v2 v3; scope { b0(): v7 = \
    add v1 v1; cbr v2 b0() b3(v3, v7); b1(): v8 = read; print v0; v9, v10 = pair; sink; cbr v3 b3(v3, v2) b2(); \
    b2(): ret; b3(v11, v12): cbr v6 b0() b2() }; v13 = read; br b0() }
random 9 -- U func { b0(): v0 = read; v1, v2 = pair; print v1; v3 = add v0 v0; ret v2 v0; b1(v4): v5 = mul v4 \
    v4; v6, v7 = pair; ret v5 v5 } => func { b0(): v0 = read; v1, v2 = pair; print v1; v3 = add v0 v0; ret v2 \
    v0; b1(v4): v5 = mul v4 v4; v6, v7 = pair; ret v5 v5 }
random 10 -- U func { b0(): v0 = read; v1 = read; cbr v1 b1(v0, v1) b1(v0, v0); b1(v2, v3): v4 = div v1 v3; v5 = \
    mul v1 v0; v6 = const 0; v7 = add v1 v1; cbr v4 b1(v1, v4) b1(v6, v0) } => func { b0(): v0 = read; v1 = \
    read; cbr v1 b1(v0, v1) b1(v0, v0); b1(v2, v3): v4 = div v1 v3; v5 = mul v1 v0; v6 = const 0; v7 = add v1 \
    v1; cbr v4 b1(v1, v4) b1(v6, v0) }
random 11 -- U func { b0(v0): br b0(v0); b1(v1): print v1; print v1; ret } => func { b0(v0): br b0(v0); b1(v1): \
    print v1; print v1; ret }
random 12 -- C func { b0(v0): v1 = const 0; cbr v1 b1() b0(v1); b1(): v2 = read; print v0; cbr v0 b1() b2(); \
    b2(): scope { b0(): v3 = add v0 v0; v4 = mul v0 v3; ret v3 v0 }; scope v0 v1 { b0(): cbr v1 b1(v0) b2(); \
    b1(v5): br b0(); b2(): v6 = add v1 v1; v7, v8 = pair; v9, v10 = pair; v11 = div v0 v1; br b2(); b3(): v12 = \
    const 0; v13, v14 = pair; box { b0(v15, v16): ret v14 v14 }; br b2() }; v17 = const 1; ret v1 } => func { \
    b0(v0): v1 = const 0; cbr v1 b1() b0(v1); b1(): v2 = read; print v0; cbr v0 b1() b2(); b2(): scope { b0(): \
    v3 = add v0 v0; v4 = mul v0 v3; ret v3 v0 }; scope v0 v1 { b0(): cbr v1 b1(v0) b2(); b1(v5): br b0(); b2(): \
    v6 = add v1 v1; v7, v8 = pair; v9 = div v0 v1; br b2(); b3(): v10 = const 0; v11, v12 = pair; box { b0(v13, \
    v14): ret v12 v12 }; br b2() }; v15 = const 1; ret v1 }
random 13 -- C func { b0(v0): v1 = add v0 v0; v2 = add v0 v0; v3 = add v2 v0; cbr v3 b1() b3(v1, v0); b1(): v4 = \
    add v3 v0; cbr v0 b2() b2(); b2(): cbr v2 b2() b1(); b3(v5, v6): cbr v5 b4() b1(); b4(): v7 = add v1 v0; ret \
    v3 } => func { b0(v0): v1 = add v0 v0; v2 = add v1 v0; cbr v2 b1() b3(v1, v0); b1(): v3 = add v2 v0; cbr v0 \
    b2() b2(); b2(): cbr v1 b2() b1(); b3(v4, v5): cbr v4 b4() b1(); b4(): ret v2 }
random 14 -- U func { b0(v0): v1 = add v0 v0; ret } => func { b0(v0): v1 = add v0 v0; ret }
random 15 -- C func { b0(v0): print v0; sink v0 v0; scope v0 { b0(v1): v2 = read; cbr v0 b3() b3(); b1(v3, v4): \
    v5 = mul v4 v2; v6 = add v0 v1; cbr v2 b2() b0(v11); b2(): box { b0(v7, v8): v9 = add v0 v1; cbr v11 b0(v9, \
    v3) b0(v11, v6); b1(): ret }; ret v5; b3(): print v1; v10 = add v0 v0; v11 = add v2 v1; cbr v11 b3() b1(v1, \
    v1) }; v12 = add v0 v0; ret } => func { b0(v0): print v0; sink v0 v0; scope v0 { b0(v1): v2 = read; cbr v0 \
    b3() b3(); b1(v3, v4): v5 = mul v4 v2; v6 = add v0 v1; cbr v2 b2() b0(v10); b2(): box { b0(v7, v8): cbr v10 \
    b0(v6, v3) b0(v10, v6); b1(): ret }; ret v5; b3(): print v1; v9 = add v0 v0; v10 = add v2 v1; cbr v10 b3() \
    b1(v1, v1) }; v11 = add v0 v0; ret }
random 16 -- U func { b0(v0, v1): v2 = read; print v0; cbr v1 b3() b2(v0, v1); b1(): v3 = add v1 v0; v4 = add v0 \
    v0; scope { b0(v5): v6 = add v3 v0; ret v3 v1 }; print v1; br b3(); b2(v7, v8): scope v1 { b0(v9): cbr v9 \
    b2() b0(v2); b1(v10): scope { b0(v11, v12): sink v1 v7; cbr v10 b1() b1(); b1(): v13 = div v1 v0; ret v8 }; \
    v14 = read; scope v1 { b0(): br b0(); b1(): v15 = div v1 v1; v16 = const 0; v17 = read; br b1() }; v18 = div \
    v0 v14; br b1(v7); b2(): v19 = div v1 v7; ret }; print v8; v20 = add v0 v1; print v1; br b0(v8, v2); b3(): \
    cbr v0 b1() b3() } => func { b0(v0, v1): v2 = read; print v0; cbr v1 b3() b2(v0, v1); b1(): v3 = add v1 v0; \
    v4 = add v0 v0; scope { b0(v5): v6 = add v3 v0; ret v3 v1 }; print v1; br b3(); b2(v7, v8): scope v1 { \
    b0(v9): cbr v9 b2() b0(v2); b1(v10): scope { b0(v11, v12): sink v1 v7; cbr v10 b1() b1(); b1(): v13 = div v1 \
    v0; ret v8 }; v14 = read; scope v1 { b0(): br b0(); b1(): v15 = div v1 v1; v16 = const 0; v17 = read; br \
    b1() }; v18 = div v0 v14; br b1(v7); b2(): v19 = div v1 v7; ret }; print v8; v20 = add v0 v1; print v1; br \
    b0(v8, v2); b3(): cbr v0 b1() b3() }
random 17 -- U func { b0(v0, v1): v2 = add v0 v0; v3 = mul v0 v2; v4 = read; v5, v6 = pair; ret v4 } => func { \
    b0(v0, v1): v2 = add v0 v0; v3 = mul v0 v2; v4 = read; v5, v6 = pair; ret v4 }
random 18 -- U func { b0(v0, v1): scope v1 v1 { b0(v2): v3 = div v1 v0; box { b0(): cbr v1 b0() b0() }; cbr v0 \
    b0(v0) b0(v1) }; ret v0 } => func { b0(v0, v1): scope v1 v1 { b0(v2): v3 = div v1 v0; box { b0(): cbr v1 \
    b0() b0() }; cbr v0 b0(v0) b0(v1) }; ret v0 }
random 19 -- U func { b0(v0, v1): scope v1 v1 { b0(v2): ret }; v3 = const 1; br b0(v0, v1); b1(): v4, v5 = pair; \
    cbr v4 b0(v4, v4) b1() } => func { b0(v0, v1): scope v1 v1 { b0(v2): ret }; v3 = const 1; br b0(v0, v1); \
    b1(): v4, v5 = pair; cbr v4 b0(v4, v4) b1() }
random 20 -- U func { b0(v0, v1): cbr v1 b1(v1, v0) b2(); b1(v2, v3): v4 = read; v5 = div v3 v1; v6 = div v0 v2; \
    v7 = add v1 v0; br b1(v7, v4); b2(): v8 = const 1; scope { b0(v9): v10 = add v1 v0; v11, v12 = pair; scope \
    v0 v0 { b0(v13): v14 = read; v15 = add v0 v1; v16 = add v1 v1; cbr v12 b0(v15) b0(v1) }; ret v11 v9 }; v17 = \
    add v0 v1; cbr v17 b2() b0(v1, v8) } => func { b0(v0, v1): cbr v1 b1(v1, v0) b2(); b1(v2, v3): v4 = read; v5 \
    = div v3 v1; v6 = div v0 v2; v7 = add v1 v0; br b1(v7, v4); b2(): v8 = const 1; scope { b0(v9): v10 = add v1 \
    v0; v11, v12 = pair; scope v0 v0 { b0(v13): v14 = read; v15 = add v0 v1; v16 = add v1 v1; cbr v12 b0(v15) \
    b0(v1) }; ret v11 v9 }; v17 = add v0 v1; cbr v17 b2() b0(v1, v8) }
random 21 -- U func { b0(): v0 = const 0; ret } => func { b0(): v0 = const 0; ret }
random 22 -- U func { b0(): v0 = read; ret v0 } => func { b0(): v0 = read; ret v0 }
random 23 -- C func { b0(): v0, v1 = pair; v2, v3 = pair; sink v0 v0; v4 = div v1 v3; cbr v1 b0() b3(v4, v1); \
    b1(v5): scope { b0(v6): print v6; scope v5 { b0(v7): br b1(); b1(): v8, v9 = pair; sink v5 v5; print v5; v10 \
    = read; br b2(v6); b2(v11): print v5; v12 = read; v13, v14 = pair; cbr v10 b0(v7) b3(v12); b3(v15): v16, v17 \
    = pair; sink v5; v18 = add v6 v5; ret v7 v7 }; print v6; ret v6 v6 }; ret; b2(): v19, v20 = pair; v21 = add \
    v20 v20; sink v19 v21; br b2(); b3(v22, v23): br b0() } => func { b0(): v0, v1 = pair; sink v0 v0; v2 = div \
    v1 v1; cbr v1 b0() b3(v2, v1); b1(v3): scope { b0(v4): print v4; scope v3 { b0(v5): br b1(); b1(): v6, v7 = \
    pair; sink v3 v3; print v3; v8 = read; br b2(v4); b2(v9): print v3; v10 = read; v11, v12 = pair; cbr v8 \
    b0(v5) b3(v10); b3(v13): v14, v15 = pair; sink v3; v16 = add v4 v3; ret v5 v5 }; print v4; ret v4 v4 }; ret; \
    b2(): v17, v18 = pair; v19 = add v18 v18; sink v17 v19; br b2(); b3(v20, v21): br b0() }
random 24 -- C func { b0(v0): print v0; v1 = add v0 v0; br b1(v1); b1(v2): v3, v4 = pair; v5, v6 = pair; scope \
    v0 { b0(): v7 = const 1; print v0; cbr v7 b1() b1(); b1(): print v0; v8, v9 = pair; ret v8 v6 }; v10 = read; \
    ret v0 } => func { b0(v0): print v0; v1 = add v0 v0; br b1(v1); b1(v2): v3, v4 = pair; scope v0 { b0(): v5 = \
    const 1; print v0; cbr v5 b1() b1(); b1(): print v0; v6, v7 = pair; ret v6 v4 }; v8 = read; ret v0 }
random 25 -- C func { b0(v0): cbr v0 b1() b0(v0); b1(): sink v0 v0; print v0; sink v0 v0; ret v0; b2(): v1, v2 = \
    pair; v3 = div v1 v2; sink v2; v4 = add v2 v3; cbr v3 b1() b2() } => func { b0(v0): cbr v0 b1() b0(v0); \
    b1(): sink v0 v0; print v0; ret v0; b2(): v1, v2 = pair; v3 = div v1 v2; sink v2; v4 = add v2 v3; cbr v3 \
    b1() b2() }
random 26 -- C func { b0(): v0, v1 = pair; v2 = mul v0 v1; br b4(v2); b1(v3): v4 = const 1; sink; v5, v6 = pair; \
    br b0(); b2(): v7, v8 = pair; v9, v10 = pair; print v10; v11 = add v8 v10; cbr v11 b3() b4(v10); b3(): v12 = \
    const 0; v13 = add v12 v12; v14 = add v13 v13; box { b0(v15): v16 = add v14 v12; ret }; cbr v13 b1(v14) \
    b0(); b4(v17): v18 = add v2 v2; scope v0 { b0(v19): v20 = const 1; box { b0(): ret }; v21 = mul v1 v1; v22 = \
    const 1; ret v20; b1(): v23 = div v1 v0; v24, v25 = pair; v26, v27 = pair; v28 = mul v0 v0; ret v18 }; v29 = \
    const 1; br b1(v2) } => func { b0(): v0, v1 = pair; v2 = mul v0 v1; br b4(v2); b1(v3): sink; br b0(); b2(): \
    v4, v5 = pair; v6, v7 = pair; print v7; v8 = add v5 v7; cbr v8 b3() b4(v7); b3(): v9 = const 0; v10 = add v9 \
    v9; v11 = add v10 v10; box { b0(v12): v13 = add v11 v9; ret }; cbr v10 b1(v11) b0(); b4(v14): v15 = add v2 \
    v2; scope v0 { b0(v16): v17 = const 1; box { b0(): ret }; v18 = mul v1 v1; ret v17; b1(): v19 = div v1 v0; \
    v20, v21 = pair; v22, v23 = pair; v24 = mul v0 v0; ret v15 }; v25 = const 1; br b1(v2) }
random 27 -- C func { b0(v0, v1): scope { b0(v2): v3 = read; v4 = read; cbr v3 b1(v0) b2(); b1(v5): v6 = add v0 \
    v0; v7 = add v5 v2; v8 = add v0 v0; v9 = add v1 v0; ret v2; b2(): v10 = div v1 v1; v11 = const 1; v12 = \
    read; cbr v11 b2() b1(v11) }; ret v0 } => func { b0(v0, v1): scope { b0(v2): v3 = read; v4 = read; cbr v3 \
    b1(v0) b2(); b1(v5): v6 = add v0 v0; v7 = add v5 v2; v8 = add v1 v0; ret v2; b2(): v9 = div v1 v1; v10 = \
    const 1; v11 = read; cbr v10 b2() b1(v10) }; ret v0 }
random 28 -- U func { b0(): v0 = const 1; cbr v0 b0() b0(); b1(v1): box { b0(v2, v3): v4 = div v2 v1; v5 = add \
    v4 v2; cbr v5 b0(v4, v1) b2(); b1(): v6 = const 1; v7, v8 = pair; v9 = const 1; br b0(v8, v9); b2(): scope \
    v1 { b0(v10): v11 = read; v12 = read; v13 = add v2 v2; ret }; print v1; print v2; v14 = add v5 v5; cbr v3 \
    b2() b0(v4, v4) }; br b1(v1) } => func { b0(): v0 = const 1; cbr v0 b0() b0(); b1(v1): box { b0(v2, v3): v4 \
    = div v2 v1; v5 = add v4 v2; cbr v5 b0(v4, v1) b2(); b1(): v6 = const 1; v7, v8 = pair; v9 = const 1; br \
    b0(v8, v9); b2(): scope v1 { b0(v10): v11 = read; v12 = read; v13 = add v2 v2; ret }; print v1; print v2; \
    v14 = add v5 v5; cbr v3 b2() b0(v4, v4) }; br b1(v1) }
random 29 -- C func { b0(v0): v1 = mul v0 v0; box { b0(v2, v3): v4 = const 1; scope v1 v0 { b0(v5, v6): ret v5 \
    }; ret v1 v2 }; scope v0 { b0(v7, v8): v9 = add v0 v7; print v0; scope v0 { b0(): sink v1 v1; v10 = add v1 \
    v1; v11 = mul v0 v1; br b2(v0); b1(v12): v13, v14 = pair; br b0(); b2(v15): sink v1 v1; v16, v17 = pair; \
    print v0; ret; b3(v18, v19): v20 = add v0 v7; print v1; print v0; br b2(v1) }; v21 = read; ret v7 }; ret v1; \
    b1(): v22 = const 0; cbr v22 b3(v22) b2(); b2(): v23, v24 = pair; cbr v24 b2() b2(); b3(v25): br b2(); b4(): \
    v26 = const 0; br b1() } => func { b0(v0): v1 = mul v0 v0; box { b0(v2, v3): v4 = const 1; scope v1 v0 { \
    b0(v5, v6): ret v5 }; ret v1 v2 }; scope v0 { b0(v7, v8): v9 = add v0 v7; print v0; scope v0 { b0(): sink v1 \
    v1; v10 = add v1 v1; v11 = mul v0 v1; br b2(v0); b1(v12): v13, v14 = pair; br b0(); b2(v15): v16, v17 = \
    pair; print v0; ret; b3(v18, v19): v20 = add v0 v7; print v1; print v0; br b2(v1) }; v21 = read; ret v7 }; \
    ret v1; b1(): v22 = const 0; cbr v22 b3(v22) b2(); b2(): v23, v24 = pair; cbr v24 b2() b2(); b3(v25): br \
    b2(); b4(): v26 = const 0; br b1() }
random 30 -- U func { b0(): v0, v1 = pair; cbr v1 b0() b0(); b1(): v2 = read; sink; v3 = read; cbr v3 b1() b0() \
    } => func { b0(): v0, v1 = pair; cbr v1 b0() b0(); b1(): v2 = read; sink; v3 = read; cbr v3 b1() b0() }
random 31 -- C func { b0(): v0, v1 = pair; v2 = mul v1 v1; v3 = div v2 v0; cbr v0 b2(v3, v0) b1(); b1(): v4, v5 \
    = pair; v6 = read; br b2(v3, v2); b2(v7, v8): v9 = add v0 v1; br b4(v1, v3); b3(v10): v11 = read; v12 = add \
    v10 v11; cbr v11 b1() b3(v10); b4(v13, v14): box { b0(): cbr v8 b1() b1(); b1(): v15, v16 = pair; cbr v2 \
    b1() b0() }; v17 = read; v18 = add v17 v17; v19 = const 0; cbr v3 b4(v7, v17) b4(v2, v2) } => func { b0(): \
    v0, v1 = pair; v2 = mul v1 v1; v3 = div v2 v0; cbr v0 b2(v3, v0) b1(); b1(): v4 = read; br b2(v3, v2); \
    b2(v5, v6): v7 = add v0 v1; br b4(v1, v3); b3(v8): v9 = read; v10 = add v8 v9; cbr v9 b1() b3(v8); b4(v11, \
    v12): box { b0(): cbr v6 b1() b1(); b1(): v13, v14 = pair; cbr v2 b1() b0() }; v15 = read; v16 = add v15 \
    v15; v17 = const 0; cbr v3 b4(v5, v15) b4(v2, v2) }
random 32 -- U func { b0(v0): v1 = mul v0 v0; ret v1 v0 } => func { b0(v0): v1 = mul v0 v0; ret v1 v0 }
random 33 -- U func { b0(): v0 = read; sink v0; v1 = const 0; ret v0; b1(): br b0() } => func { b0(): v0 = read; \
    sink v0; v1 = const 0; ret v0; b1(): br b0() }
random 34 -- C func { b0(): v0 = const 1; cbr v0 b3(v0) b2(); b1(v1, v2): sink v0 v2; br b2(); b2(): v3 = add v0 \
    v0; box { b0(v4, v5): sink v0 v0; br b1(); b1(): br b2(); b2(): scope { b0(v6, v7): v8 = div v0 v3; v9 = add \
    v0 v3; cbr v3 b1(v3, v9) b1(v4, v8); b1(v10, v11): print v3; v12 = add v0 v0; print v6; v13 = read; br \
    b1(v0, v0) }; ret }; box { b0(v14, v15): cbr v15 b1(v15) b2(); b1(v16): v17 = mul v0 v3; cbr v14 b1(v17) \
    b0(v14, v17); b2(): sink v15 v3; v18 = add v15 v0; ret }; v19 = mul v3 v3; cbr v0 b1(v0, v3) b2(); b3(v20): \
    sink v20 v20; br b3(v0) } => func { b0(): v0 = const 1; cbr v0 b3(v0) b2(); b1(v1, v2): sink v0 v2; br b2(); \
    b2(): v3 = add v0 v0; box { b0(v4, v5): sink v0 v0; br b1(); b1(): br b2(); b2(): scope { b0(v6, v7): v8 = \
    div v0 v3; v9 = add v0 v3; cbr v3 b1(v3, v9) b1(v4, v8); b1(v10, v11): print v3; print v6; v12 = read; br \
    b1(v0, v0) }; ret }; box { b0(v13, v14): cbr v14 b1(v14) b2(); b1(v15): v16 = mul v0 v3; cbr v13 b1(v16) \
    b0(v13, v16); b2(): sink v14 v3; v17 = add v14 v0; ret }; v18 = mul v3 v3; cbr v0 b1(v0, v3) b2(); b3(v19): \
    sink v19 v19; br b3(v0) }
random 35 -- C func { b0(v0, v1): v2 = mul v0 v1; v3 = mul v1 v1; scope { b0(): scope { b0(v4): v5 = mul v0 v0; \
    v6 = add v1 v0; ret }; v7, v8 = pair; br b2(v7, v2); b1(v9): v10 = add v1 v0; v11, v12 = pair; v13 = add v7 \
    v7; v14 = div v11 v9; ret v16; b2(v15, v16): scope v1 { b0(): sink; v17 = add v1 v0; v18 = read; print v1; \
    cbr v17 b0() b0() }; v19 = add v2 v0; br b1(v16) }; ret v1 v1 } => func { b0(v0, v1): v2 = mul v0 v1; v3 = \
    mul v1 v1; scope { b0(): scope { b0(v4): v5 = mul v0 v0; v6 = add v1 v0; ret }; v7, v8 = pair; br b2(v7, \
    v2); b1(v9): v10 = add v1 v0; v11 = add v7 v7; v12 = div v7 v9; ret v14; b2(v13, v14): scope v1 { b0(): \
    sink; v15 = add v1 v0; v16 = read; print v1; cbr v15 b0() b0() }; v17 = add v2 v0; br b1(v14) }; ret v1 v1 }
random 36 -- C func { b0(): v0 = const 0; v1 = add v0 v0; v2 = mul v1 v0; cbr v2 b1(v1) b1(v1); b1(v3): v4, v5 = \
    pair; v6 = const 0; scope { b0(): br b0(); b1(v7, v8): v9 = add v1 v1; br b2(); b2(): v10 = add v1 v1; print \
    v1; v11 = add v1 v0; cbr v10 b2() b3(v11, v10); b3(v12, v13): v14 = read; sink; print v1; br b1(v3, v4) }; \
    cbr v6 b1(v2) b0(); b2(v15): print v15; ret v15 v15 } => func { b0(): v0 = const 0; v1 = add v0 v0; v2 = mul \
    v1 v0; cbr v2 b1(v1) b1(v1); b1(v3): v4, v5 = pair; scope { b0(): br b0(); b1(v6, v7): v8 = add v1 v1; br \
    b2(); b2(): v9 = add v1 v1; print v1; v10 = add v1 v0; cbr v9 b2() b3(v10, v9); b3(v11, v12): v13 = read; \
    sink; print v1; br b1(v3, v4) }; cbr v0 b1(v2) b0(); b2(v14): print v14; ret v14 v14 }
random 37 -- C func { b0(): v0, v1 = pair; print v0; sink v0 v1; v2, v3 = pair; cbr v0 b2() b4(v1, v0); b1(): v4 \
    = add v0 v1; v5 = add v13 v0; v6 = const 1; br b2(); b2(): ret; b3(): sink; v7 = add v0 v1; v8 = add v0 v0; \
    cbr v9 b0() b1(); b4(v9, v10): v11 = add v10 v1; v12 = add v1 v0; v13 = mul v1 v1; cbr v3 b3() b1() } => \
    func { b0(): v0, v1 = pair; print v0; sink v0 v1; cbr v0 b2() b4(v1, v0); b1(): v2 = add v0 v1; v3 = add v11 \
    v0; v4 = const 1; br b2(); b2(): ret; b3(): sink; v5 = add v0 v1; v6 = add v0 v0; cbr v7 b0() b1(); b4(v7, \
    v8): v9 = add v8 v1; v10 = add v1 v0; v11 = mul v1 v1; cbr v1 b3() b1() }
random 38 -- C func { b0(): v0 = const 0; print v0; v1 = const 1; v2, v3 = pair; cbr v0 b3() b0(); b1(): v4, v5 \
    = pair; cbr v5 b1() b2(); b2(): sink v7 v7; br b4(v2, v1); b3(): v6 = const 0; v7 = add v0 v1; scope v1 { \
    b0(): v8 = add v0 v1; ret }; print v1; br b4(v2, v1); b4(v9, v10): v11 = add v6 v7; v12 = add v9 v6; br b2() \
    } => func { b0(): v0 = const 0; print v0; v1 = const 1; v2, v3 = pair; cbr v0 b3() b0(); b1(): v4, v5 = \
    pair; cbr v5 b1() b2(); b2(): sink v6 v6; br b4(v2, v1); b3(): v6 = add v0 v1; scope v1 { b0(): ret }; print \
    v1; br b4(v2, v1); b4(v7, v8): v9 = add v0 v6; v10 = add v7 v0; br b2() }
random 39 -- U func { b0(v0): v1 = read; v2 = add v1 v1; ret v2 v2; b1(v3, v4): v5 = add v4 v4; ret; b2(v6, v7): \
    v8 = const 0; br b3(v6); b3(v9): v10 = add v9 v9; print v9; ret; b4(v11, v12): v13 = add v11 v12; v14 = add \
    v13 v11; v15, v16 = pair; cbr v11 b2(v11, v12) b1(v16, v11) } => func { b0(v0): v1 = read; v2 = add v1 v1; \
    ret v2 v2; b1(v3, v4): v5 = add v4 v4; ret; b2(v6, v7): v8 = const 0; br b3(v6); b3(v9): v10 = add v9 v9; \
    print v9; ret; b4(v11, v12): v13 = add v11 v12; v14 = add v13 v11; v15, v16 = pair; cbr v11 b2(v11, v12) \
    b1(v16, v11) }
random 40 -- C func { b0(): v0 = const 1; br b3(v0); b1(): v1 = const 1; br b2(v1); b2(v2): v3 = add v2 v2; v4 = \
    add v2 v2; scope v4 { b0(v5, v6): scope v2 v2 { b0(): v7 = add v6 v5; v8 = read; ret }; cbr v6 b0(v5, v5) \
    b0(v6, v3) }; v9 = const 1; ret v3 v9; b3(v10): box { b0(): br b1(v10); b1(v11): print v0; print v0; v12 = \
    add v0 v0; scope v0 v12 { b0(v13): v14 = add v10 v10; v15 = add v10 v10; v16 = add v10 v15; print v0; ret \
    v12 v0 }; ret; b2(): v17 = add v0 v10; v18 = const 1; cbr v18 b0() b0() }; v19 = add v0 v0; v20 = mul v10 \
    v0; ret } => func { b0(): v0 = const 1; br b3(v0); b1(): v1 = const 1; br b2(v1); b2(v2): v3 = add v2 v2; v4 \
    = add v2 v2; scope v4 { b0(v5, v6): scope v2 v2 { b0(): v7 = add v6 v5; v8 = read; ret }; cbr v6 b0(v5, v5) \
    b0(v6, v3) }; v9 = const 1; ret v3 v9; b3(v10): box { b0(): br b1(v10); b1(v11): print v0; print v0; v12 = \
    add v0 v0; scope v0 v12 { b0(v13): v14 = add v10 v10; v15 = add v10 v14; print v0; ret v12 v0 }; ret; b2(): \
    v16 = add v0 v10; v17 = const 1; cbr v17 b0() b0() }; v18 = add v0 v0; v19 = mul v10 v0; ret }
random 41 -- U func { b0(): v0 = read; scope v0 { b0(): v1 = div v0 v0; v2 = const 0; v3 = add v0 v0; v4, v5 = \
    pair; ret v1 }; box { b0(): v6, v7 = pair; ret v0 v0 }; ret v0 } => func { b0(): v0 = read; scope v0 { b0(): \
    v1 = div v0 v0; v2 = const 0; v3 = add v0 v0; v4, v5 = pair; ret v1 }; box { b0(): v6, v7 = pair; ret v0 v0 \
    }; ret v0 }
random 42 -- U func { b0(v0, v1): print v0; v2, v3 = pair; print v1; cbr v3 b0(v3, v2) b0(v3, v3) } => func { \
    b0(v0, v1): print v0; v2, v3 = pair; print v1; cbr v3 b0(v3, v2) b0(v3, v3) }
random 43 -- U func { b0(v0): v1 = add v0 v0; br b0(v1); b1(v2, v3): v4 = add v2 v2; v5 = div v3 v2; scope v5 { \
    b0(v6, v7): print v3; v8 = div v2 v3; v9 = read; v10 = add v2 v3; ret v4 v9 }; scope v5 { b0(): cbr v2 \
    b1(v4) b1(v2); b1(v11): v12 = const 0; sink v3 v2; scope v3 v3 { b0(): v13, v14 = pair; cbr v14 b1() b0(); \
    b1(): sink v2 v3; cbr v4 b0() b1() }; v15 = add v3 v5; br b0(); b2(v16): sink; v17 = div v3 v2; v18 = add v2 \
    v3; v19 = add v16 v17; ret v16 v17 }; cbr v5 b1(v2, v4) b1(v5, v4) } => func { b0(v0): v1 = add v0 v0; br \
    b0(v1); b1(v2, v3): v4 = add v2 v2; v5 = div v3 v2; scope v5 { b0(v6, v7): print v3; v8 = div v2 v3; v9 = \
    read; v10 = add v2 v3; ret v4 v9 }; scope v5 { b0(): cbr v2 b1(v4) b1(v2); b1(v11): v12 = const 0; sink v3 \
    v2; scope v3 v3 { b0(): v13, v14 = pair; cbr v14 b1() b0(); b1(): sink v2 v3; cbr v4 b0() b1() }; v15 = add \
    v3 v5; br b0(); b2(v16): sink; v17 = div v3 v2; v18 = add v2 v3; v19 = add v16 v17; ret v16 v17 }; cbr v5 \
    b1(v2, v4) b1(v5, v4) }
random 44 -- C func { b0(): v0, v1 = pair; cbr v1 b3(v0, v1) b1(v0); b1(v2): sink; br b1(v1); b2(v3): v4 = div \
    v3 v3; v5 = add v3 v4; cbr v5 b0() b3(v3, v5); b3(v6, v7): v8, v9 = pair; ret v6; b4(): v10 = const 0; br \
    b2(v10) } => func { b0(): v0, v1 = pair; cbr v1 b3(v0, v1) b1(v0); b1(v2): sink; br b1(v1); b2(v3): v4 = div \
    v3 v3; v5 = add v3 v4; cbr v5 b0() b3(v3, v5); b3(v6, v7): ret v6; b4(): v8 = const 0; br b2(v8) }
random 45 -- C func { b0(): v0 = const 1; cbr v0 b0() b2(v0); b1(): v1 = const 1; cbr v1 b1() b1(); b2(v2): \
    scope { b0(v3): box { b0(): cbr v0 b3(v3, v2) b0(); b1(v4, v5): v6, v7 = pair; v8 = add v0 v0; v9 = add v6 \
    v12; cbr v9 b0() b0(); b2(v10): v11 = div v0 v0; print v2; print v0; ret v3 v11; b3(v12, v13): v14 = add v2 \
    v2; v15, v16 = pair; sink; cbr v2 b1(v12, v13) b1(v2, v12) }; print v2; v17 = mul v3 v3; print v3; cbr v0 \
    b1(v2, v17) b1(v3, v17); b1(v18, v19): v20 = add v0 v0; print v17; sink v0; sink; br b1(v18, v0) }; print \
    v0; ret v2 } => func { b0(): v0 = const 1; cbr v0 b0() b2(v0); b1(): v1 = const 1; cbr v1 b1() b1(); b2(v2): \
    scope { b0(v3): box { b0(): cbr v0 b3(v3, v2) b0(); b1(v4, v5): v6 = add v0 v0; v7 = add v13 v10; cbr v7 \
    b0() b0(); b2(v8): v9 = div v0 v0; print v2; print v0; ret v3 v9; b3(v10, v11): v12 = add v2 v2; v13, v14 = \
    pair; sink; cbr v2 b1(v10, v11) b1(v2, v10) }; print v2; v15 = mul v3 v3; print v3; cbr v0 b1(v2, v15) \
    b1(v3, v15); b1(v16, v17): v18 = add v0 v0; print v15; sink v0; sink; br b1(v16, v0) }; print v0; ret v2 }
random 46 -- U func { b0(): v0 = const 1; ret v0 v0; b1(v1): scope v1 { b0(v2, v3): scope v1 v2 { b0(v4): sink; \
    v5 = add v4 v2; ret v5 }; ret v3 v1 }; cbr v1 b3() b2(); b2(): v6 = read; sink v6; br b2(); b3(): v7 = read; \
    scope v7 v7 { b0(v8, v9): cbr v9 b1() b2(v9, v9); b1(): v10 = add v8 v8; scope v7 { b0(): v11 = add v8 v8; \
    v12 = mul v8 v8; ret v7 v11; b1(v13): v14, v15 = pair; print v8; v16, v17 = pair; br b0() }; ret; b2(v18, \
    v19): br b2(v8, v19) }; v20, v21 = pair; cbr v20 b3() b1(v20) } => func { b0(): v0 = const 1; ret v0 v0; \
    b1(v1): scope v1 { b0(v2, v3): scope v1 v2 { b0(v4): sink; v5 = add v4 v2; ret v5 }; ret v3 v1 }; cbr v1 \
    b3() b2(); b2(): v6 = read; sink v6; br b2(); b3(): v7 = read; scope v7 v7 { b0(v8, v9): cbr v9 b1() b2(v9, \
    v9); b1(): v10 = add v8 v8; scope v7 { b0(): v11 = add v8 v8; v12 = mul v8 v8; ret v7 v11; b1(v13): v14, v15 \
    = pair; print v8; v16, v17 = pair; br b0() }; ret; b2(v18, v19): br b2(v8, v19) }; v20, v21 = pair; cbr v20 \
    b3() b1(v20) }
random 47 -- C func { b0(v0): v1, v2 = pair; scope { b0(): br b0(); b1(): print v2; br b2(); b2(): v3 = read; \
    scope { b0(): v4 = add v2 v2; v5 = mul v0 v1; v6 = add v0 v1; v7 = add v1 v0; cbr v1 b0() b0() }; print v1; \
    ret v0 v3 }; v8 = add v1 v1; v9 = add v1 v1; ret v0 } => func { b0(v0): v1, v2 = pair; scope { b0(): br \
    b0(); b1(): print v2; br b2(); b2(): v3 = read; scope { b0(): v4 = add v2 v2; v5 = mul v0 v1; v6 = add v0 \
    v1; v7 = add v1 v0; cbr v1 b0() b0() }; print v1; ret v0 v3 }; v8 = add v1 v1; ret v0 }
random 48 -- C func { b0(v0, v1): v2 = const 1; v3 = read; print v2; br b4(v2, v3); b1(): v4 = div v13 v13; \
    scope { b0(v5): cbr v1 b0(v14) b0(v4) }; br b3(); b2(v6): print v13; v7 = const 1; v8 = div v13 v14; v9 = \
    div v14 v13; cbr v3 b4(v2, v13) b3(); b3(): v10 = mul v0 v0; v11 = mul v13 v13; v12 = add v13 v13; sink v13; \
    br b2(v14); b4(v13, v14): cbr v2 b4(v1, v1) b1() } => func { b0(v0, v1): v2 = const 1; v3 = read; print v2; \
    br b4(v2, v3); b1(): v4 = div v12 v12; scope { b0(v5): cbr v1 b0(v13) b0(v4) }; br b3(); b2(v6): print v12; \
    v7 = div v12 v13; v8 = div v13 v12; cbr v3 b4(v2, v12) b3(); b3(): v9 = mul v0 v0; v10 = mul v12 v12; v11 = \
    add v12 v12; sink v12; br b2(v13); b4(v12, v13): cbr v2 b4(v1, v1) b1() }
random 49 -- C func { b0(): v0, v1 = pair; v2 = add v1 v0; v3 = add v0 v1; v4 = mul v2 v3; cbr v3 b0() b1(v2); \
    b1(v5): v6 = read; v7 = add v0 v1; br b2(v2, v7); b2(v8, v9): ret v0 v6 } => func { b0(): v0, v1 = pair; v2 \
    = add v1 v0; v3 = add v0 v1; v4 = mul v2 v3; cbr v3 b0() b1(v2); b1(v5): v6 = read; br b2(v2, v3); b2(v7, \
    v8): ret v0 v6 }
random 50 -- C func { b0(): v0 = read; v1 = add v0 v0; cbr v1 b1(v0) b0(); b1(v2): v3, v4 = pair; v5 = const 1; \
    v6 = add v0 v0; br b0() } => func { b0(): v0 = read; v1 = add v0 v0; cbr v1 b1(v0) b0(); b1(v2): v3, v4 = \
    pair; v5 = const 1; br b0() }
random 51 -- U func { b0(): v0, v1 = pair; box { b0(): v2 = add v1 v0; v3 = div v2 v1; ret v0 v0 }; br b1(); \
    b1(): v4 = const 1; br b0() } => func { b0(): v0, v1 = pair; box { b0(): v2 = add v1 v0; v3 = div v2 v1; ret \
    v0 v0 }; br b1(); b1(): v4 = const 1; br b0() }
random 52 -- U func { b0(): v0, v1 = pair; v2 = add v1 v0; cbr v0 b1() b0(); b1(): print v2; v3 = add v0 v1; v4 \
    = add v1 v1; cbr v0 b0() b2(v1, v2); b2(v5, v6): cbr v5 b2(v5, v4) b1() } => func { b0(): v0, v1 = pair; v2 \
    = add v1 v0; cbr v0 b1() b0(); b1(): print v2; v3 = add v0 v1; v4 = add v1 v1; cbr v0 b0() b2(v1, v2); \
    b2(v5, v6): cbr v5 b2(v5, v4) b1() }
random 53 -- C func { b0(): v0 = const 0; v1 = const 0; print v0; print v1; ret v1 } => func { b0(): v0 = const \
    0; print v0; print v0; ret v0 }
random 54 -- U func { b0(v0): v1, v2 = pair; scope { b0(v3): v4 = add v0 v1; scope v0 v0 { b0(): print v1; ret \
    }; cbr v3 b2(v1, v1) b2(v4, v1); b1(v5): print v5; ret; b2(v6, v7): scope v1 { b0(): v8 = div v1 v1; sink v1 \
    v0; cbr v2 b1() b2(v8); b1(): br b0(); b2(v9): ret v0 v8 }; v10 = add v0 v0; sink; v11, v12 = pair; cbr v1 \
    b2(v12, v11) b0(v4) }; ret v0 v0 } => func { b0(v0): v1, v2 = pair; scope { b0(v3): v4 = add v0 v1; scope v0 \
    v0 { b0(): print v1; ret }; cbr v3 b2(v1, v1) b2(v4, v1); b1(v5): print v5; ret; b2(v6, v7): scope v1 { \
    b0(): v8 = div v1 v1; sink v1 v0; cbr v2 b1() b2(v8); b1(): br b0(); b2(v9): ret v0 v8 }; v10 = add v0 v0; \
    sink; v11, v12 = pair; cbr v1 b2(v12, v11) b0(v4) }; ret v0 v0 }
random 55 -- C func { b0(v0): v1, v2 = pair; scope { b0(v3, v4): box { b0(): v5 = mul v1 v0; v6 = mul v0 v1; cbr \
    v1 b0() b0() }; box { b0(v7): v8 = add v0 v1; ret }; print v0; v9 = div v0 v1; cbr v1 b0(v1, v3) b0(v4, v4) \
    }; v10 = read; v11 = read; cbr v1 b1(v10, v2) b1(v1, v10); b1(v12, v13): v14, v15 = pair; v16 = mul v0 v0; \
    print v1; print v1; ret; b2(v17): v18 = add v17 v17; v19 = add v18 v17; sink; cbr v19 b1(v19, v18) b0(v19) } \
    => func { b0(v0): v1, v2 = pair; scope { b0(v3, v4): box { b0(): v5 = mul v1 v0; v6 = mul v0 v1; cbr v1 b0() \
    b0() }; box { b0(v7): v8 = add v0 v1; ret }; print v0; v9 = div v0 v1; cbr v1 b0(v1, v3) b0(v4, v4) }; v10 = \
    read; v11 = read; cbr v1 b1(v10, v2) b1(v1, v10); b1(v12, v13): v14 = mul v0 v0; print v1; print v1; ret; \
    b2(v15): v16 = add v15 v15; v17 = add v16 v15; sink; cbr v17 b1(v17, v16) b0(v17) }
random 56 -- U func { b0(): v0 = read; print v0; print v0; v1 = add v0 v0; cbr v0 b2(v0, v1) b3(); b1(): v2, v3 \
    = pair; v4 = mul v3 v3; v5 = add v4 v2; box { b0(): ret; b1(v6, v7): v8 = const 0; print v2; v9 = add v3 v2; \
    sink v2; br b0() }; br b0(); b2(v10, v11): print v1; v12 = add v11 v11; v13, v14 = pair; cbr v0 b3() b2(v12, \
    v1); b3(): cbr v0 b2(v0, v0) b3() } => func { b0(): v0 = read; print v0; print v0; v1 = add v0 v0; cbr v0 \
    b2(v0, v1) b3(); b1(): v2, v3 = pair; v4 = mul v3 v3; v5 = add v4 v2; box { b0(): ret; b1(v6, v7): v8 = \
    const 0; print v2; v9 = add v3 v2; sink v2; br b0() }; br b0(); b2(v10, v11): print v1; v12 = add v11 v11; \
    v13, v14 = pair; cbr v0 b3() b2(v12, v1); b3(): cbr v0 b2(v0, v0) b3() }
random 57 -- U func { b0(): v0, v1 = pair; sink; scope { b0(): box { b0(): cbr v1 b1() b0(); b1(): v2 = const 1; \
    v3 = add v0 v0; cbr v3 b0() b0(); b2(v4, v5): print v5; ret v0 v5; b3(): v6 = read; br b3() }; v7 = add v0 \
    v0; ret v7 v0; b1(): v8 = add v1 v1; v9 = add v8 v8; box { b0(v10): v11 = div v1 v0; ret v0 }; scope v8 { \
    b0(): v12 = read; v13 = add v1 v9; ret v13 v8 }; br b1() }; cbr v1 b2() b0(); b1(): cbr v1 b2() b1(); b2(): \
    cbr v0 b0() b1() } => func { b0(): v0, v1 = pair; sink; scope { b0(): box { b0(): cbr v1 b1() b0(); b1(): v2 \
    = const 1; v3 = add v0 v0; cbr v3 b0() b0(); b2(v4, v5): print v5; ret v0 v5; b3(): v6 = read; br b3() }; v7 \
    = add v0 v0; ret v7 v0; b1(): v8 = add v1 v1; v9 = add v8 v8; box { b0(v10): v11 = div v1 v0; ret v0 }; \
    scope v8 { b0(): v12 = read; v13 = add v1 v9; ret v13 v8 }; br b1() }; cbr v1 b2() b0(); b1(): cbr v1 b2() \
    b1(); b2(): cbr v0 b0() b1() }
random 58 -- U func { b0(): br b1(); b1(): v0, v1 = pair; v2 = div v0 v0; box { b0(): print v0; scope { b0(v3): \
    v4 = mul v2 v3; v5 = read; ret v3 v5 }; v6 = const 0; scope { b0(): v7 = add v6 v1; v8, v9 = pair; ret v9 \
    v7; b1(): cbr v2 b2(v0, v2) b1(); b2(v10, v11): ret; b3(): v12 = add v2 v0; v13 = add v0 v0; cbr v1 b0() \
    b2(v2, v12) }; ret }; box { b0(v14, v15): v16 = read; ret v0; b1(v17): br b1(v2) }; br b1() } => func { \
    b0(): br b1(); b1(): v0, v1 = pair; v2 = div v0 v0; box { b0(): print v0; scope { b0(v3): v4 = mul v2 v3; v5 \
    = read; ret v3 v5 }; v6 = const 0; scope { b0(): v7 = add v6 v1; v8, v9 = pair; ret v9 v7; b1(): cbr v2 \
    b2(v0, v2) b1(); b2(v10, v11): ret; b3(): v12 = add v2 v0; v13 = add v0 v0; cbr v1 b0() b2(v2, v12) }; ret \
    }; box { b0(v14, v15): v16 = read; ret v0; b1(v17): br b1(v2) }; br b1() }
random 59 -- C func { b0(): v0, v1 = pair; print v0; v2, v3 = pair; v4 = read; br b3(v1, v1); b1(v5, v6): cbr v6 \
    b3(v2, v1) b4(); b2(): v7 = read; print v7; v8 = const 1; print v7; ret; b3(v9, v10): v11 = mul v1 v1; print \
    v0; scope v0 v1 { b0(): scope v1 { b0(v12): ret v10 v2 }; sink v1 v0; v13 = mul v1 v0; ret v4 }; v14 = mul \
    v10 v9; cbr v1 b1(v11, v1) b0(); b4(): br b0() } => func { b0(): v0, v1 = pair; print v0; v2 = read; br \
    b3(v1, v1); b1(v3, v4): cbr v4 b3(v0, v1) b4(); b2(): v5 = read; print v5; v6 = const 1; print v5; ret; \
    b3(v7, v8): v9 = mul v1 v1; print v0; scope v0 v1 { b0(): scope v1 { b0(v10): ret v8 v0 }; sink v1 v0; v11 = \
    mul v1 v0; ret v2 }; v12 = mul v8 v7; cbr v1 b1(v9, v1) b0(); b4(): br b0() }
random 60 -- U func { b0(): v0 = const 0; scope v0 v0 { b0(): scope v0 v0 { b0(v1, v2): cbr v1 b0(v2, v2) b0(v0, \
    v0) }; ret }; ret } => func { b0(): v0 = const 0; scope v0 v0 { b0(): scope v0 v0 { b0(v1, v2): cbr v1 \
    b0(v2, v2) b0(v0, v0) }; ret }; ret }
random 61 -- C func { b0(v0, v1): scope v0 v0 { b0(v2, v3): sink v3; scope { b0(): cbr v3 b0() b0() }; v4 = \
    const 1; box { b0(): v5 = add v0 v0; v6 = add v0 v0; ret }; ret v2 }; scope v1 { b0(): ret; b1(v7, v8): v9 = \
    mul v8 v0; v10 = add v1 v1; cbr v9 b0() b1(v8, v9) }; v11 = read; br b1(v1, v1); b1(v12, v13): cbr v0 b0(v0, \
    v13) b0(v0, v11) } => func { b0(v0, v1): scope v0 v0 { b0(v2, v3): sink v3; scope { b0(): cbr v3 b0() b0() \
    }; v4 = const 1; box { b0(): v5 = add v0 v0; ret }; ret v2 }; scope v1 { b0(): ret; b1(v6, v7): v8 = mul v7 \
    v0; v9 = add v1 v1; cbr v8 b0() b1(v7, v8) }; v10 = read; br b1(v1, v1); b1(v11, v12): cbr v0 b0(v0, v12) \
    b0(v0, v10) }
random 62 -- U func { b0(): v0 = const 0; box { b0(v1, v2): v3 = mul v2 v1; sink v2 v2; v4, v5 = pair; print v0; \
    ret v2 v2 }; v6, v7 = pair; br b1(); b1(): print v6; box { b0(v8): v9, v10 = pair; v11 = add v6 v0; cbr v0 \
    b0(v0) b0(v11) }; v12 = add v0 v0; br b1(); b2(v13, v14): cbr v14 b1() b1(); b3(): v15, v16 = pair; cbr v16 \
    b0() b0() } => func { b0(): v0 = const 0; box { b0(v1, v2): v3 = mul v2 v1; sink v2 v2; v4, v5 = pair; print \
    v0; ret v2 v2 }; v6, v7 = pair; br b1(); b1(): print v6; box { b0(v8): v9, v10 = pair; v11 = add v6 v0; cbr \
    v0 b0(v0) b0(v11) }; v12 = add v0 v0; br b1(); b2(v13, v14): cbr v14 b1() b1(); b3(): v15, v16 = pair; cbr \
    v16 b0() b0() }
random 63 -- C func { b0(v0): print v0; print v0; v1 = const 0; br b2(); b1(v2): scope v0 { b0(v3): v4 = read; \
    v5 = add v1 v0; ret v1 v0 }; v6 = add v0 v1; print v1; v7 = div v1 v0; br b0(v0); b2(): v8 = mul v1 v1; v9 = \
    mul v8 v8; print v9; print v0; cbr v9 b4(v8) b0(v9); b3(v10): cbr v10 b4(v10) b0(v10); b4(v11): v12 = const \
    0; br b1(v1) } => func { b0(v0): print v0; print v0; v1 = const 0; br b2(); b1(v2): scope v0 { b0(v3): v4 = \
    read; v5 = add v1 v0; ret v1 v0 }; v6 = add v0 v1; print v1; v7 = div v1 v0; br b0(v0); b2(): v8 = mul v1 \
    v1; v9 = mul v8 v8; print v9; print v0; cbr v9 b4(v8) b0(v9); b3(v10): cbr v10 b4(v10) b0(v10); b4(v11): br \
    b1(v1) }
random 64 -- U func { b0(): br b0(); b1(): v0 = const 1; cbr v0 b4() b3(); b2(v1): v2 = mul v1 v1; box { b0(v3, \
    v4): scope v1 v1 { b0(v5, v6): br b0(v3, v3); b1(): v7, v8 = pair; v9, v10 = pair; v11 = mul v1 v2; br b1() \
    }; cbr v1 b0(v4, v1) b0(v4, v3) }; v12 = add v2 v1; br b2(v1); b3(): v13, v14 = pair; cbr v14 b2(v14) b0(); \
    b4(): v15 = const 1; cbr v15 b0() b3() } => func { b0(): br b0(); b1(): v0 = const 1; cbr v0 b4() b3(); \
    b2(v1): v2 = mul v1 v1; box { b0(v3, v4): scope v1 v1 { b0(v5, v6): br b0(v3, v3); b1(): v7, v8 = pair; v9, \
    v10 = pair; v11 = mul v1 v2; br b1() }; cbr v1 b0(v4, v1) b0(v4, v3) }; v12 = add v2 v1; br b2(v1); b3(): \
    v13, v14 = pair; cbr v14 b2(v14) b0(); b4(): v15 = const 1; cbr v15 b0() b3() }
random 65 -- U func { b0(): ret } => func { b0(): ret }
random 66 -- U func { b0(): v0 = read; sink v0; v1, v2 = pair; sink v0 v2; br b0(); b1(): v3 = const 1; cbr v3 \
    b2(v3, v3) b1(); b2(v4, v5): v6, v7 = pair; ret; b3(v8, v9): cbr v8 b1() b3(v9, v9); b4(v10): v11 = read; \
    v12 = add v11 v10; v13 = mul v10 v12; cbr v11 b1() b4(v12) } => func { b0(): v0 = read; sink v0; v1, v2 = \
    pair; sink v0 v2; br b0(); b1(): v3 = const 1; cbr v3 b2(v3, v3) b1(); b2(v4, v5): v6, v7 = pair; ret; \
    b3(v8, v9): cbr v8 b1() b3(v9, v9); b4(v10): v11 = read; v12 = add v11 v10; v13 = mul v10 v12; cbr v11 b1() \
    b4(v12) }
random 67 -- U func { b0(): v0, v1 = pair; br b0(); b1(v2): v3 = add v2 v2; v4 = add v3 v3; cbr v4 b1(v4) b1(v2) \
    } => func { b0(): v0, v1 = pair; br b0(); b1(v2): v3 = add v2 v2; v4 = add v3 v3; cbr v4 b1(v4) b1(v2) }
random 68 -- C func { b0(): v0 = const 1; br b3(v0, v0); b1(v1): v2, v3 = pair; box { b0(v4, v5): v6 = div v2 \
    v2; v7 = const 0; ret v3 }; ret v2; b2(): scope v23 { b0(): v8 = const 1; v9 = read; sink; v10 = add v8 v26; \
    br b1(); b1(): box { b0(v11): print v23; ret v10 v11 }; v12, v13 = pair; v14 = const 1; br b3(); b2(v15, \
    v16): scope { b0(v17): print v23; br b1(v0, v0); b1(v18, v19): v20 = add v23 v24; v21 = add v25 v23; br \
    b0(v24) }; v22 = add v24 v24; ret v25 v15; b3(): br b0() }; cbr v0 b3(v25, v25) b3(v23, v26); b3(v23, v24): \
    v25, v26 = pair; cbr v26 b2() b2() } => func { b0(): v0 = const 1; br b3(v0, v0); b1(v1): v2, v3 = pair; box \
    { b0(v4, v5): v6 = div v2 v2; v7 = const 0; ret v3 }; ret v2; b2(): scope v22 { b0(): v8 = const 1; v9 = \
    read; sink; v10 = add v8 v25; br b1(); b1(): box { b0(v11): print v22; ret v10 v11 }; v12, v13 = pair; br \
    b3(); b2(v14, v15): scope { b0(v16): print v22; br b1(v0, v0); b1(v17, v18): v19 = add v22 v23; v20 = add \
    v24 v22; br b0(v23) }; v21 = add v23 v23; ret v24 v14; b3(): br b0() }; cbr v0 b3(v24, v24) b3(v22, v25); \
    b3(v22, v23): v24, v25 = pair; cbr v25 b2() b2() }
random 69 -- C func { b0(): v0, v1 = pair; sink v1; v2 = add v0 v1; v3, v4 = pair; ret v1 } => func { b0(): v0, \
    v1 = pair; sink v1; v2 = add v0 v1; ret v1 }
random 70 -- C func { b0(v0): v1, v2 = pair; print v1; br b1(v0); b1(v3): v4, v5 = pair; v6 = mul v0 v1; ret v2 \
    v3 } => func { b0(v0): v1, v2 = pair; print v1; br b1(v0); b1(v3): v4 = mul v0 v1; ret v2 v3 }
random 71 -- U func { b0(): v0 = const 0; print v0; v1 = add v0 v0; cbr v0 b0() b0(); b1(): v2, v3 = pair; v4 = \
    add v2 v3; v5, v6 = pair; v7 = add v3 v2; ret } => func { b0(): v0 = const 0; print v0; v1 = add v0 v0; cbr \
    v0 b0() b0(); b1(): v2, v3 = pair; v4 = add v2 v3; v5, v6 = pair; v7 = add v3 v2; ret }
random 72 -- U func { b0(v0): cbr v0 b3(v0, v0) b4(); b1(v1, v2): v3 = add v1 v0; ret; b2(v4, v5): v6 = mul v5 \
    v0; br b1(v6, v0); b3(v7, v8): cbr v7 b3(v7, v7) b2(v0, v8); b4(): print v0; v9 = read; v10 = add v0 v0; v11 \
    = div v9 v9; cbr v9 b2(v10, v11) b4() } => func { b0(v0): cbr v0 b3(v0, v0) b4(); b1(v1, v2): v3 = add v1 \
    v0; ret; b2(v4, v5): v6 = mul v5 v0; br b1(v6, v0); b3(v7, v8): cbr v7 b3(v7, v7) b2(v0, v8); b4(): print \
    v0; v9 = read; v10 = add v0 v0; v11 = div v9 v9; cbr v9 b2(v10, v11) b4() }
random 73 -- C func { b0(v0): sink v0; v1 = div v0 v0; v2 = add v1 v1; box { b0(v3, v4): v5 = mul v0 v1; v6 = \
    add v1 v0; scope v4 v2 { b0(v7, v8): v9 = add v1 v1; cbr v5 b0(v5, v1) b0(v6, v8) }; cbr v6 b1() b3(v0); \
    b1(): v10 = add v1 v1; br b3(v10); b2(v11): v12 = const 1; box { b0(): ret v2 v1 }; v13, v14 = pair; br \
    b0(v14, v0); b3(v15): br b0(v6, v1) }; cbr v2 b1() b0(v0); b1(): print v2; v16 = add v0 v0; v17, v18 = pair; \
    scope { b0(): v19 = add v0 v1; br b0(); b1(v20): cbr v16 b0() b0() }; br b0(v18) } => func { b0(v0): sink \
    v0; v1 = div v0 v0; v2 = add v1 v1; box { b0(v3, v4): v5 = mul v0 v1; v6 = add v1 v0; scope v4 v2 { b0(v7, \
    v8): cbr v5 b0(v5, v1) b0(v6, v8) }; cbr v6 b1() b3(v0); b1(): br b3(v2); b2(v9): v10 = const 1; box { b0(): \
    ret v2 v1 }; v11, v12 = pair; br b0(v12, v0); b3(v13): br b0(v6, v1) }; cbr v2 b1() b0(v0); b1(): print v2; \
    v14 = add v0 v0; v15, v16 = pair; scope { b0(): v17 = add v0 v1; br b0(); b1(v18): cbr v14 b0() b0() }; br \
    b0(v16) }
random 74 -- U func { b0(v0): ret v0 v0; b1(): v1, v2 = pair; cbr v2 b0(v1) b1() } => func { b0(v0): ret v0 v0; \
    b1(): v1, v2 = pair; cbr v2 b0(v1) b1() }
random 75 -- C func { b0(): v0, v1 = pair; v2 = const 1; v3 = add v2 v2; cbr v1 b1() b2(v1, v1); b1(): scope { \
    b0(): v4 = mul v2 v1; print v0; v5 = const 0; box { b0(v6, v7): v8 = add v0 v0; print v1; ret; b1(v9): ret \
    v5 }; cbr v5 b1(v5) b0(); b1(v10): cbr v3 b1(v3) b1(v5) }; v11 = const 1; v12 = div v0 v1; cbr v3 b0() b1(); \
    b2(v13, v14): v15 = mul v0 v1; v16, v17 = pair; br b1() } => func { b0(): v0, v1 = pair; v2 = const 1; v3 = \
    add v2 v2; cbr v1 b1() b2(v1, v1); b1(): scope { b0(): v4 = mul v2 v1; print v0; v5 = const 0; box { b0(v6, \
    v7): v8 = add v0 v0; print v1; ret; b1(v9): ret v5 }; cbr v5 b1(v5) b0(); b1(v10): cbr v3 b1(v3) b1(v5) }; \
    v11 = div v0 v1; cbr v3 b0() b1(); b2(v12, v13): v14 = mul v0 v1; br b1() }
random 76 -- C func { b0(v0, v1): scope v0 { b0(): v2 = add v0 v1; scope { b0(v3): ret }; ret v0 }; print v0; v4 \
    = add v1 v0; sink; br b3(v1, v4); b1(v5): v6 = div v22 v1; scope v0 { b0(): v7 = mul v0 v0; scope v1 v0 { \
    b0(v8, v9): v10 = add v0 v1; v11 = add v1 v0; ret v5 }; print v0; v12 = mul v0 v1; ret }; v13 = read; v14 = \
    mul v1 v1; br b4(v20); b2(): v15 = read; v16 = div v15 v15; v17 = add v16 v15; ret v17; b3(v18, v19): v20 = \
    add v1 v0; v21 = div v1 v1; v22 = div v0 v0; v23 = add v0 v1; br b4(v21); b4(v24): print v0; print v0; cbr \
    v21 b3(v21, v20) b1(v18) } => func { b0(v0, v1): scope v0 { b0(): v2 = add v0 v1; scope { b0(v3): ret }; ret \
    v0 }; print v0; v4 = add v1 v0; sink; br b3(v1, v4); b1(v5): v6 = div v19 v1; scope v0 { b0(): v7 = mul v0 \
    v0; scope v1 v0 { b0(v8, v9): ret v5 }; print v0; v10 = mul v0 v1; ret }; v11 = read; v12 = mul v1 v1; br \
    b4(v4); b2(): v13 = read; v14 = div v13 v13; v15 = add v14 v13; ret v15; b3(v16, v17): v18 = div v1 v1; v19 \
    = div v0 v0; v20 = add v0 v1; br b4(v18); b4(v21): print v0; print v0; cbr v18 b3(v18, v4) b1(v16) }
random 77 -- U func { b0(v0): v1 = mul v0 v0; v2, v3 = pair; ret v0 } => func { b0(v0): v1 = mul v0 v0; v2, v3 = \
    pair; ret v0 }
random 78 -- C func { b0(v0): v1 = add v0 v0; v2 = add v0 v0; cbr v2 b0(v0) b0(v2) } => func { b0(v0): v1 = add \
    v0 v0; cbr v1 b0(v0) b0(v1) }
random 79 -- C func { b0(v0, v1): v2 = const 0; scope v2 v0 { b0(v3): print v1; v4 = mul v0 v3; v5 = div v0 v1; \
    scope v0 { b0(): br b0(); b1(v6): v7 = mul v0 v1; cbr v4 b0() b0() }; ret }; v8 = add v2 v0; print v0; cbr \
    v8 b3(v8) b0(v8, v0); b1(): cbr v8 b0(v8, v2) b2(); b2(): v9 = const 0; v10 = add v11 v12; ret; b3(v11): \
    print v11; v12 = add v11 v1; br b1() } => func { b0(v0, v1): v2 = const 0; scope v2 v0 { b0(v3): print v1; \
    v4 = mul v0 v3; v5 = div v0 v1; scope v0 { b0(): br b0(); b1(v6): v7 = mul v0 v1; cbr v4 b0() b0() }; ret }; \
    v8 = add v2 v0; print v0; cbr v8 b3(v8) b0(v8, v0); b1(): cbr v8 b0(v8, v2) b2(); b2(): v9 = add v10 v11; \
    ret; b3(v10): print v10; v11 = add v10 v1; br b1() }
random 80 -- U func { b0(v0): v1 = mul v0 v0; v2, v3 = pair; box { b0(v4, v5): ret; b1(v6, v7): v8 = mul v1 v0; \
    scope { b0(v9): v10 = add v1 v1; print v1; br b3(); b1(): cbr v3 b0(v6) b0(v7); b2(v11, v12): v13 = mul v1 \
    v0; v14 = add v1 v0; v15 = add v0 v1; v16 = add v1 v0; br b3(); b3(): br b2(v7, v2) }; scope { b0(): v17 = \
    add v8 v2; ret v17 }; br b2(v7); b2(v18): print v2; v19 = read; br b1(v3, v1) }; print v0; cbr v0 b1(v2, v1) \
    b0(v1); b1(v20, v21): cbr v1 b0(v0) b2(v3); b2(v22): cbr v20 b2(v0) b0(v3) } => func { b0(v0): v1 = mul v0 \
    v0; v2, v3 = pair; box { b0(v4, v5): ret; b1(v6, v7): v8 = mul v1 v0; scope { b0(v9): v10 = add v1 v1; print \
    v1; br b3(); b1(): cbr v3 b0(v6) b0(v7); b2(v11, v12): v13 = mul v1 v0; v14 = add v1 v0; v15 = add v0 v1; \
    v16 = add v1 v0; br b3(); b3(): br b2(v7, v2) }; scope { b0(): v17 = add v8 v2; ret v17 }; br b2(v7); \
    b2(v18): print v2; v19 = read; br b1(v3, v1) }; print v0; cbr v0 b1(v2, v1) b0(v1); b1(v20, v21): cbr v1 \
    b0(v0) b2(v3); b2(v22): cbr v20 b2(v0) b0(v3) }
random 81 -- C func { b0(v0): scope v0 v0 { b0(): v1 = div v0 v0; v2 = const 1; ret v0 }; v3 = add v0 v0; v4 = \
    add v0 v0; ret v0 v0 } => func { b0(v0): scope v0 v0 { b0(): v1 = div v0 v0; v2 = const 1; ret v0 }; v3 = \
    add v0 v0; ret v0 v0 }
random 82 -- U func { b0(): v0 = const 0; scope v0 v0 { b0(): v1 = add v0 v0; print v0; cbr v0 b2(v0, v1) b0(); \
    b1(): ret v0; b2(v2, v3): v4 = add v2 v0; scope v0 { b0(): ret v2 v2 }; cbr v1 b2(v3, v0) b0(); b3(v5, v6): \
    v7 = add v0 v0; cbr v5 b3(v7, v5) b1() }; scope v0 v0 { b0(): print v0; v8 = add v0 v0; v9 = div v0 v8; v10 \
    = mul v9 v0; br b0(); b1(): scope v0 { b0(v11): br b1(); b1(): v12 = add v11 v0; v13 = add v0 v11; ret v12 \
    }; print v0; v14 = mul v0 v0; ret v14 v0 }; scope v0 v0 { b0(v15): cbr v0 b0(v0) b0(v15) }; ret } => func { \
    b0(): v0 = const 0; scope v0 v0 { b0(): v1 = add v0 v0; print v0; cbr v0 b2(v0, v1) b0(); b1(): ret v0; \
    b2(v2, v3): v4 = add v2 v0; scope v0 { b0(): ret v2 v2 }; cbr v1 b2(v3, v0) b0(); b3(v5, v6): v7 = add v0 \
    v0; cbr v5 b3(v7, v5) b1() }; scope v0 v0 { b0(): print v0; v8 = add v0 v0; v9 = div v0 v8; v10 = mul v9 v0; \
    br b0(); b1(): scope v0 { b0(v11): br b1(); b1(): v12 = add v11 v0; v13 = add v0 v11; ret v12 }; print v0; \
    v14 = mul v0 v0; ret v14 v0 }; scope v0 v0 { b0(v15): cbr v0 b0(v0) b0(v15) }; ret }
random 83 -- U func { b0(v0): v1 = add v0 v0; v2 = div v0 v1; br b1(v0); b1(v3): v4 = add v2 v2; cbr v4 b0(v2) \
    b1(v2) } => func { b0(v0): v1 = add v0 v0; v2 = div v0 v1; br b1(v0); b1(v3): v4 = add v2 v2; cbr v4 b0(v2) \
    b1(v2) }
random 84 -- U func { b0(v0, v1): sink v0 v1; v2 = mul v0 v0; ret v2 v1 } => func { b0(v0, v1): sink v0 v1; v2 = \
    mul v0 v0; ret v2 v1 }
random 85 -- C func { b0(v0, v1): v2 = add v0 v0; print v2; v3 = add v0 v0; v4 = read; cbr v4 b0(v0, v2) b0(v4, \
    v2) } => func { b0(v0, v1): v2 = add v0 v0; print v2; v3 = read; cbr v3 b0(v0, v2) b0(v3, v2) }
random 86 -- U func { b0(): v0 = read; scope { b0(v1, v2): print v1; v3 = add v2 v2; v4 = add v2 v3; br b0(v3, \
    v0); b1(v5, v6): cbr v5 b0(v6, v5) b1(v0, v5) }; v7 = div v0 v0; ret v7; b1(v8): cbr v8 b2() b3(v8, v8); \
    b2(): v9, v10 = pair; cbr v9 b3(v10, v9) b1(v9); b3(v11, v12): cbr v11 b3(v11, v12) b0(); b4(): v13 = const \
    0; cbr v13 b2() b1(v13) } => func { b0(): v0 = read; scope { b0(v1, v2): print v1; v3 = add v2 v2; v4 = add \
    v2 v3; br b0(v3, v0); b1(v5, v6): cbr v5 b0(v6, v5) b1(v0, v5) }; v7 = div v0 v0; ret v7; b1(v8): cbr v8 \
    b2() b3(v8, v8); b2(): v9, v10 = pair; cbr v9 b3(v10, v9) b1(v9); b3(v11, v12): cbr v11 b3(v11, v12) b0(); \
    b4(): v13 = const 0; cbr v13 b2() b1(v13) }
random 87 -- C func { b0(): v0 = const 1; br b1(v0); b1(v1): v2 = const 1; scope v1 { b0(v3, v4): v5 = mul v0 \
    v0; cbr v0 b1() b2(v0); b1(): print v1; ret v2; b2(v6): v7 = add v1 v0; print v1; v8 = add v7 v6; ret v6 }; \
    cbr v1 b0() b1(v1); b2(): v9 = const 1; cbr v9 b0() b0() } => func { b0(): v0 = const 1; br b1(v0); b1(v1): \
    scope v1 { b0(v2, v3): v4 = mul v0 v0; cbr v0 b1() b2(v0); b1(): print v1; ret v0; b2(v5): v6 = add v1 v0; \
    print v1; v7 = add v6 v5; ret v5 }; cbr v1 b0() b1(v1); b2(): v8 = const 1; cbr v8 b0() b0() }
random 88 -- C func { b0(): v0 = const 1; v1 = const 0; cbr v1 b2(v1, v0) b3(v1, v0); b1(v2): v3 = add v2 v2; v4 \
    = const 0; br b3(v4, v2); b2(v5, v6): v7, v8 = pair; br b3(v1, v8); b3(v9, v10): v11 = const 0; ret; b4(): \
    v12 = read; v13 = read; print v13; br b0() } => func { b0(): v0 = const 1; v1 = const 0; cbr v1 b2(v1, v0) \
    b3(v1, v0); b1(v2): v3 = add v2 v2; v4 = const 0; br b3(v4, v2); b2(v5, v6): v7, v8 = pair; br b3(v1, v8); \
    b3(v9, v10): ret; b4(): v11 = read; v12 = read; print v12; br b0() }
random 89 -- U func { b0(v0, v1): v2 = const 1; scope v2 v0 { b0(): v3 = const 1; print v0; scope v1 v2 { b0(v4, \
    v5): cbr v2 b0(v3, v2) b0(v2, v2) }; cbr v3 b2(v1) b0(); b1(): v6 = mul v3 v14; print v1; v7 = read; v8 = \
    mul v0 v0; br b1(); b2(v9): print v0; box { b0(v10, v11): cbr v10 b0(v10, v11) b0(v2, v10) }; v12 = add v0 \
    v1; cbr v3 b2(v9) b3(v2, v12); b3(v13, v14): print v12; print v1; v15, v16 = pair; cbr v15 b1() b3(v2, v15) \
    }; v17 = add v0 v2; ret v17 v2 } => func { b0(v0, v1): v2 = const 1; scope v2 v0 { b0(): v3 = const 1; print \
    v0; scope v1 v2 { b0(v4, v5): cbr v2 b0(v3, v2) b0(v2, v2) }; cbr v3 b2(v1) b0(); b1(): v6 = mul v3 v14; \
    print v1; v7 = read; v8 = mul v0 v0; br b1(); b2(v9): print v0; box { b0(v10, v11): cbr v10 b0(v10, v11) \
    b0(v2, v10) }; v12 = add v0 v1; cbr v3 b2(v9) b3(v2, v12); b3(v13, v14): print v12; print v1; v15, v16 = \
    pair; cbr v15 b1() b3(v2, v15) }; v17 = add v0 v2; ret v17 v2 }
random 90 -- C func { b0(): v0, v1 = pair; sink v1; print v1; cbr v1 b2() b2(); b1(v2): scope { b0(): v3 = add \
    v0 v0; cbr v2 b0() b1(v3, v2); b1(v4, v5): scope v0 v0 { b0(): v6 = div v0 v0; v7 = add v11 v0; v8 = add v0 \
    v0; ret v6 }; v9 = read; cbr v1 b1(v3, v4) b1(v4, v3) }; v10 = add v11 v0; cbr v2 b2() b2(); b2(): box { \
    b0(): ret v1 }; print v1; v11 = add v1 v1; scope v1 v0 { b0(v12, v13): sink v0 v1; scope v0 v0 { b0(v14, \
    v15): ret; b1(v16): sink v0 v0; v17 = const 0; v18 = add v0 v1; v19 = read; cbr v0 b0(v18, v17) b1(v19) }; \
    ret }; cbr v1 b1(v1) b0() } => func { b0(): v0, v1 = pair; sink v1; print v1; cbr v1 b2() b2(); b1(v2): \
    scope { b0(): v3 = add v0 v0; cbr v2 b0() b1(v3, v2); b1(v4, v5): scope v0 v0 { b0(): v6 = div v0 v0; v7 = \
    add v10 v0; ret v6 }; v8 = read; cbr v1 b1(v3, v4) b1(v4, v3) }; v9 = add v10 v0; cbr v2 b2() b2(); b2(): \
    box { b0(): ret v1 }; print v1; v10 = add v1 v1; scope v1 v0 { b0(v11, v12): sink v0 v1; scope v0 v0 { \
    b0(v13, v14): ret; b1(v15): sink v0 v0; v16 = const 0; v17 = add v0 v1; v18 = read; cbr v0 b0(v17, v16) \
    b1(v18) }; ret }; cbr v1 b1(v1) b0() }
random 91 -- C func { b0(): v0, v1 = pair; br b2(v0); b1(v2, v3): v4 = add v2 v2; br b2(v2); b2(v5): print v0; \
    v6, v7 = pair; print v1; v8 = add v0 v5; ret v8 v0 } => func { b0(): v0, v1 = pair; br b2(v0); b1(v2, v3): \
    v4 = add v2 v2; br b2(v2); b2(v5): print v0; print v1; v6 = add v0 v5; ret v6 v0 }
random 92 -- C func { b0(): v0 = const 1; v1 = add v0 v0; v2 = mul v1 v1; v3 = const 1; ret v2; b1(v4): v5 = mul \
    v4 v4; print v5; v6 = read; v7, v8 = pair; cbr v5 b1(v7) b2(v8); b2(v9): scope v9 { b0(v10): scope v10 { \
    b0(): v11 = add v9 v9; ret v11 }; ret v9 }; v12, v13 = pair; br b2(v12); b3(): v14 = read; sink v14 v14; cbr \
    v14 b3() b1(v14); b4(v15): v16 = add v15 v15; v17 = add v16 v15; v18 = add v15 v17; v19 = add v17 v15; br \
    b4(v16) } => func { b0(): v0 = const 1; v1 = add v0 v0; v2 = mul v1 v1; ret v2; b1(v3): v4 = mul v3 v3; \
    print v4; v5 = read; v6, v7 = pair; cbr v4 b1(v6) b2(v7); b2(v8): scope v8 { b0(v9): scope v9 { b0(): v10 = \
    add v8 v8; ret v10 }; ret v8 }; v11, v12 = pair; br b2(v11); b3(): v13 = read; sink v13 v13; cbr v13 b3() \
    b1(v13); b4(v14): v15 = add v14 v14; v16 = add v15 v14; v17 = add v14 v16; v18 = add v16 v14; br b4(v15) }
random 93 -- U func { b0(v0): ret v0 } => func { b0(v0): ret v0 }
random 94 -- C func { b0(): v0, v1 = pair; v2 = add v0 v0; scope v0 v1 { b0(): scope { b0(): v3 = read; sink; \
    print v2; cbr v2 b0() b0() }; v4 = read; v5 = div v4 v0; v6, v7 = pair; ret v2 v6 }; v8, v9 = pair; ret v9 } \
    => func { b0(): v0, v1 = pair; v2 = add v0 v0; scope v0 v1 { b0(): scope { b0(): v3 = read; sink; print v2; \
    cbr v2 b0() b0() }; v4 = read; v5 = div v4 v0; v6, v7 = pair; ret v2 v6 }; ret v1 }
random 95 -- C func { b0(v0): v1, v2 = pair; sink; box { b0(v3, v4): print v1; v5 = add v0 v1; br b0(v1, v2); \
    b1(v6): v7 = read; box { b0(): v8 = read; v9 = div v0 v0; v10, v11 = pair; v12, v13 = pair; cbr v0 b0() b0() \
    }; cbr v7 b1(v0) b0(v6, v1) }; v14, v15 = pair; cbr v1 b1(v0) b2(); b1(v16): v17 = add v15 v1; br b1(v16); \
    b2(): scope v1 v0 { b0(): v18 = mul v0 v15; v19 = const 0; scope v0 { b0(v20): print v20; br b0(v0); \
    b1(v21): v22, v23 = pair; cbr v1 b1(v23) b1(v18) }; v24, v25 = pair; ret v19 v25 }; br b0(v1) } => func { \
    b0(v0): v1, v2 = pair; sink; box { b0(v3, v4): print v1; v5 = add v0 v1; br b0(v1, v2); b1(v6): v7 = read; \
    box { b0(): v8 = read; v9 = div v0 v0; v10, v11 = pair; v12, v13 = pair; cbr v0 b0() b0() }; cbr v7 b1(v0) \
    b0(v6, v1) }; cbr v1 b1(v0) b2(); b1(v14): v15 = add v2 v1; br b1(v14); b2(): scope v1 v0 { b0(): v16 = mul \
    v0 v2; v17 = const 0; scope v0 { b0(v18): print v18; br b0(v0); b1(v19): v20, v21 = pair; cbr v1 b1(v21) \
    b1(v16) }; v22, v23 = pair; ret v17 v23 }; br b0(v1) }
random 96 -- U func { b0(v0, v1): v2 = read; cbr v0 b0(v1, v2) b0(v0, v2) } => func { b0(v0, v1): v2 = read; cbr \
    v0 b0(v1, v2) b0(v0, v2) }
random 97 -- C func { b0(v0): br b2(v0, v0); b1(): print v12; v1 = add v11 v12; box { b0(): v2 = const 1; v3 = \
    add v10 v0; v4 = add v0 v10; cbr v0 b1() b1(); b1(): print v4; v5 = mul v0 v0; v6 = add v0 v10; cbr v5 b1() \
    b2(v2); b2(v7): v8 = const 1; print v0; v9 = add v10 v0; br b0() }; cbr v11 b0(v1) b2(v1, v1); b2(v10, v11): \
    v12 = div v11 v11; br b1() } => func { b0(v0): br b2(v0, v0); b1(): print v9; v1 = add v8 v9; box { b0(): v2 \
    = const 1; v3 = add v7 v0; v4 = add v0 v7; cbr v0 b1() b1(); b1(): print v4; v5 = mul v0 v0; cbr v5 b1() \
    b2(v2); b2(v6): print v0; br b0() }; cbr v8 b0(v1) b2(v1, v1); b2(v7, v8): v9 = div v8 v8; br b1() }
random 98 -- U func { b0(v0, v1): v2 = const 0; print v2; cbr v1 b1(v0, v2) b3(v2); b1(v3, v4): cbr v0 b0(v2, \
    v1) b3(v2); b2(v5): print v5; v6, v7 = pair; br b0(v5, v7); b3(v8): v9 = add v8 v0; print v0; v10 = div v1 \
    v0; v11 = add v0 v1; cbr v8 b3(v1) b0(v8, v2) } => func { b0(v0, v1): v2 = const 0; print v2; cbr v1 b1(v0, \
    v2) b3(v2); b1(v3, v4): cbr v0 b0(v2, v1) b3(v2); b2(v5): print v5; v6, v7 = pair; br b0(v5, v7); b3(v8): v9 \
    = add v8 v0; print v0; v10 = div v1 v0; v11 = add v0 v1; cbr v8 b3(v1) b0(v8, v2) }
random 99 -- C func { b0(): v0, v1 = pair; scope v1 { b0(v2): v3 = div v1 v0; v4 = const 1; v5 = add v4 v0; v6 = \
    read; cbr v2 b2(v2, v4) b0(v1); b1(v7, v8): cbr v0 b0(v5) b0(v0); b2(v9, v10): print v1; br b1(v3, v1) }; \
    v11 = div v1 v0; cbr v11 b1() b1(); b1(): v12, v13 = pair; cbr v13 b0() b0() } => func { b0(): v0, v1 = \
    pair; scope v1 { b0(v2): v3 = div v1 v0; v4 = const 1; v5 = add v4 v0; v6 = read; cbr v2 b2(v2, v4) b0(v1); \
    b1(v7, v8): cbr v0 b0(v5) b0(v0); b2(v9, v10): print v1; br b1(v3, v1) }; v11 = div v1 v0; cbr v11 b1() \
    b1(); b1(): cbr v1 b0() b0() }
random 100 -- C func { b0(v0): print v0; cbr v0 b1(v0, v0) b1(v0, v0); b1(v1, v2): scope v2 { b0(): cbr v2 b0() \
    b2(v2); b1(v3, v4): box { b0(v5, v6): br b1(v2); b1(v7): v8, v9 = pair; v10 = add v0 v0; ret }; v11 = add v0 \
    v1; br b2(v13); b2(v12): br b3(v1, v1); b3(v13, v14): v15 = add v0 v1; br b1(v13, v15) }; sink v2 v2; print \
    v2; print v0; cbr v0 b3() b1(v2, v1); b2(): v16, v17 = pair; v18 = div v17 v16; v19, v20 = pair; v21 = add \
    v16 v16; br b2(); b3(): scope v1 { b0(): v22 = mul v1 v0; ret v0 }; v23 = add v1 v1; ret } => func { b0(v0): \
    print v0; cbr v0 b1(v0, v0) b1(v0, v0); b1(v1, v2): scope v2 { b0(): cbr v2 b0() b2(v2); b1(v3, v4): box { \
    b0(v5, v6): br b1(v2); b1(v7): v8, v9 = pair; v10 = add v0 v0; ret }; br b2(v12); b2(v11): br b3(v1, v1); \
    b3(v12, v13): v14 = add v0 v1; br b1(v12, v14) }; sink v2 v2; print v2; print v0; cbr v0 b3() b1(v2, v1); \
    b2(): v15, v16 = pair; v17 = div v16 v15; v18, v19 = pair; v20 = add v15 v15; br b2(); b3(): scope v1 { \
    b0(): v21 = mul v1 v0; ret v0 }; v22 = add v1 v1; ret }
random 101 -- C func { b0(v0): v1, v2 = pair; v3 = const 1; print v2; v4 = add v3 v1; cbr v4 b3() b2(v2, v4); \
    b1(): ret; b2(v5, v6): v7 = const 1; cbr v5 b2(v0, v6) b2(v5, v0); b3(): scope v1 v0 { b0(v8): print v0; v9 \
    = mul v1 v0; scope v0 { b0(): v10 = add v2 v4; v11 = add v1 v1; br b2(v0, v2); b1(): v12 = div v1 v9; sink; \
    cbr v4 b2(v12, v12) b0(); b2(v13, v14): v15 = mul v0 v1; print v1; cbr v0 b0() b0() }; print v0; ret v1 }; \
    print v1; v16 = read; cbr v4 b3() b0(v4) } => func { b0(v0): v1, v2 = pair; v3 = const 1; print v2; v4 = add \
    v3 v1; cbr v4 b3() b2(v2, v4); b1(): ret; b2(v5, v6): cbr v5 b2(v0, v6) b2(v5, v0); b3(): scope v1 v0 { \
    b0(v7): print v0; v8 = mul v1 v0; scope v0 { b0(): v9 = add v2 v4; v10 = add v1 v1; br b2(v0, v2); b1(): v11 \
    = div v1 v8; sink; cbr v4 b2(v11, v11) b0(); b2(v12, v13): v14 = mul v0 v1; print v1; cbr v0 b0() b0() }; \
    print v0; ret v1 }; print v1; v15 = read; cbr v4 b3() b0(v4) }
random 102 -- U func { b0(v0, v1): cbr v0 b0(v0, v1) b2(); b1(): v2 = read; v3 = add v2 v2; br b0(v3, v2); b2(): \
    v4, v5 = pair; ret v5; b3(v6): print v6; print v6; sink; v7 = mul v6 v6; br b3(v7) } => func { b0(v0, v1): \
    cbr v0 b0(v0, v1) b2(); b1(): v2 = read; v3 = add v2 v2; br b0(v3, v2); b2(): v4, v5 = pair; ret v5; b3(v6): \
    print v6; print v6; sink; v7 = mul v6 v6; br b3(v7) }
random 103 -- U func { b0(): v0, v1 = pair; v2 = add v1 v1; print v1; ret v1; b1(v3): v4 = div v3 v3; ret v4; \
    b2(): v5, v6 = pair; v7 = add v5 v5; print v6; v8 = mul v7 v6; ret v7; b3(v9): sink v9 v9; v10 = add v9 v9; \
    scope { b0(): v11 = div v9 v10; scope v11 v11 { b0(v12, v13): v14 = read; ret v11; b1(): sink v9 v10; sink \
    v9 v11; br b0(v11, v10) }; v15 = add v11 v11; cbr v10 b0() b0() }; cbr v10 b3(v10) b3(v9); b4(v16): v17 = \
    const 1; v18 = add v16 v16; v19 = add v18 v17; sink; cbr v16 b0() b1(v17) } => func { b0(): v0, v1 = pair; \
    v2 = add v1 v1; print v1; ret v1; b1(v3): v4 = div v3 v3; ret v4; b2(): v5, v6 = pair; v7 = add v5 v5; print \
    v6; v8 = mul v7 v6; ret v7; b3(v9): sink v9 v9; v10 = add v9 v9; scope { b0(): v11 = div v9 v10; scope v11 \
    v11 { b0(v12, v13): v14 = read; ret v11; b1(): sink v9 v10; sink v9 v11; br b0(v11, v10) }; v15 = add v11 \
    v11; cbr v10 b0() b0() }; cbr v10 b3(v10) b3(v9); b4(v16): v17 = const 1; v18 = add v16 v16; v19 = add v18 \
    v17; sink; cbr v16 b0() b1(v17) }
random 104 -- U func { b0(): v0 = const 0; br b0(); b1(): v1 = const 0; v2, v3 = pair; ret v2 v2; b2(): v4, v5 = \
    pair; cbr v5 b3(v5) b3(v4); b3(v6): scope { b0(v7): print v7; br b0(v7); b1(v8, v9): v10 = div v6 v9; br \
    b1(v9, v9) }; v11 = add v6 v6; v12 = const 0; ret v11 v11 } => func { b0(): v0 = const 0; br b0(); b1(): v1 \
    = const 0; v2, v3 = pair; ret v2 v2; b2(): v4, v5 = pair; cbr v5 b3(v5) b3(v4); b3(v6): scope { b0(v7): \
    print v7; br b0(v7); b1(v8, v9): v10 = div v6 v9; br b1(v9, v9) }; v11 = add v6 v6; v12 = const 0; ret v11 \
    v11 }
random 105 -- C func { b0(): v0, v1 = pair; v2, v3 = pair; print v2; box { b0(v4): v5 = add v1 v0; ret v2 }; br \
    b3(); b1(v6, v7): v8, v9 = pair; v10 = mul v11 v11; print v11; print v11; br b1(v10, v7); b2(v11, v12): \
    scope v0 { b0(): v13 = read; v14 = add v16 v16; v15 = add v16 v16; cbr v12 b0() b0() }; cbr v16 b0() b1(v1, \
    v1); b3(): print v2; v16 = add v0 v1; cbr v16 b3() b2(v3, v1) } => func { b0(): v0, v1 = pair; print v0; box \
    { b0(v2): v3 = add v1 v0; ret v0 }; br b3(); b1(v4, v5): v6 = mul v7 v7; print v7; print v7; br b1(v6, v5); \
    b2(v7, v8): scope v0 { b0(): v9 = read; v10 = add v11 v11; cbr v8 b0() b0() }; cbr v11 b0() b1(v1, v1); \
    b3(): print v0; v11 = add v0 v1; cbr v11 b3() b2(v1, v1) }
random 106 -- C func { b0(): v0, v1 = pair; v2 = add v1 v0; v3 = div v2 v2; sink; br b2(v3); b1(v4): v5 = read; \
    v6 = add v4 v4; cbr v4 b2(v4) b2(v4); b2(v7): scope v1 v1 { b0(v8, v9): print v1; v10 = add v1 v0; sink; \
    v11, v12 = pair; ret v9 v1 }; scope v1 v1 { b0(v13, v14): scope v0 { b0(): v15 = add v3 v2; v16 = const 0; \
    sink v0 v0; v17 = add v1 v0; ret v16 v15 }; cbr v14 b0(v1, v0) b0(v13, v1) }; print v0; cbr v3 b2(v0) b0() } \
    => func { b0(): v0, v1 = pair; v2 = add v1 v0; v3 = div v2 v2; sink; br b2(v3); b1(v4): v5 = read; v6 = add \
    v4 v4; cbr v4 b2(v4) b2(v4); b2(v7): scope v1 v1 { b0(v8, v9): print v1; sink; v10, v11 = pair; ret v9 v1 }; \
    scope v1 v1 { b0(v12, v13): scope v0 { b0(): v14 = add v3 v2; v15 = const 0; sink v0 v0; ret v15 v14 }; cbr \
    v13 b0(v1, v0) b0(v12, v1) }; print v0; cbr v3 b2(v0) b0() }
random 107 -- U func { b0(v0, v1): box { b0(): cbr v1 b0() b0() }; scope v1 v1 { b0(v2): ret v1 v2 }; cbr v1 \
    b0(v0, v1) b1(); b1(): ret; b2(): v3 = const 1; v4, v5 = pair; print v5; scope { b0(): scope { b0(v6, v7): \
    v8 = add v3 v3; print v3; v9 = read; br b1(); b1(): br b0(v8, v5); b2(v10, v11): v12, v13 = pair; sink; v14 \
    = read; ret v10 }; v15 = add v5 v4; v16 = add v4 v5; ret v3 v4 }; ret v4 v3 } => func { b0(v0, v1): box { \
    b0(): cbr v1 b0() b0() }; scope v1 v1 { b0(v2): ret v1 v2 }; cbr v1 b0(v0, v1) b1(); b1(): ret; b2(): v3 = \
    const 1; v4, v5 = pair; print v5; scope { b0(): scope { b0(v6, v7): v8 = add v3 v3; print v3; v9 = read; br \
    b1(); b1(): br b0(v8, v5); b2(v10, v11): v12, v13 = pair; sink; v14 = read; ret v10 }; v15 = add v5 v4; v16 \
    = add v4 v5; ret v3 v4 }; ret v4 v3 }
random 108 -- U func { b0(): v0 = const 0; v1 = read; v2 = div v1 v1; v3 = div v0 v1; ret v2 } => func { b0(): \
    v0 = const 0; v1 = read; v2 = div v1 v1; v3 = div v0 v1; ret v2 }
random 109 -- U func { b0(): v0 = const 0; br b2(v0); b1(): cbr v0 b3(v0, v0) b0(); b2(v1): cbr v0 b3(v1, v0) \
    b1(); b3(v2, v3): scope { b0(): cbr v3 b2() b2(); b1(v4, v5): scope { b0(): cbr v9 b1() b1(); b1(): v6 = \
    const 1; v7 = add v1 v1; br b1() }; v8 = add v1 v1; cbr v0 b3(v8, v2) b2(); b2(): v9 = add v3 v3; br b1(v0, \
    v9); b3(v10, v11): v12 = div v1 v9; v13 = add v0 v1; v14 = add v0 v0; v15 = add v1 v8; cbr v4 b1(v9, v14) \
    b3(v8, v9) }; v16 = add v3 v1; v17 = read; v18 = add v1 v0; cbr v18 b1() b3(v16, v16) } => func { b0(): v0 = \
    const 0; br b2(v0); b1(): cbr v0 b3(v0, v0) b0(); b2(v1): cbr v0 b3(v1, v0) b1(); b3(v2, v3): scope { b0(): \
    cbr v3 b2() b2(); b1(v4, v5): scope { b0(): cbr v9 b1() b1(); b1(): v6 = const 1; v7 = add v1 v1; br b1() }; \
    v8 = add v1 v1; cbr v0 b3(v8, v2) b2(); b2(): v9 = add v3 v3; br b1(v0, v9); b3(v10, v11): v12 = div v1 v9; \
    v13 = add v0 v1; v14 = add v0 v0; v15 = add v1 v8; cbr v4 b1(v9, v14) b3(v8, v9) }; v16 = add v3 v1; v17 = \
    read; v18 = add v1 v0; cbr v18 b1() b3(v16, v16) }
random 110 -- U func { b0(): v0, v1 = pair; cbr v0 b1(v0, v1) b0(); b1(v2, v3): ret v3 } => func { b0(): v0, v1 \
    = pair; cbr v0 b1(v0, v1) b0(); b1(v2, v3): ret v3 }
random 111 -- U func { b0(v0): sink v0 v0; print v0; ret v0 } => func { b0(v0): sink v0 v0; print v0; ret v0 }
random 112 -- U func { b0(v0, v1): scope v0 v1 { b0(v2, v3): ret; b1(): br b3(v1); b2(v4, v5): br b2(v0, v0); \
    b3(v6): print v1; print v0; scope v0 v6 { b0(): ret v6 v6; b1(v7, v8): print v0; br b0(); b2(v9): v10 = mul \
    v1 v6; br b2(v9); b3(): v11 = add v1 v0; v12 = div v0 v0; v13 = mul v6 v11; br b0() }; cbr v0 b2(v6, v1) \
    b2(v1, v0) }; ret v0 } => func { b0(v0, v1): scope v0 v1 { b0(v2, v3): ret; b1(): br b3(v1); b2(v4, v5): br \
    b2(v0, v0); b3(v6): print v1; print v0; scope v0 v6 { b0(): ret v6 v6; b1(v7, v8): print v0; br b0(); \
    b2(v9): v10 = mul v1 v6; br b2(v9); b3(): v11 = add v1 v0; v12 = div v0 v0; v13 = mul v6 v11; br b0() }; cbr \
    v0 b2(v6, v1) b2(v1, v0) }; ret v0 }
random 113 -- U func { b0(v0, v1): scope v0 { b0(v2, v3): v4 = add v3 v2; print v1; ret }; cbr v0 b3(v1, v1) \
    b0(v0, v1); b1(v5): v6 = const 1; v7, v8 = pair; box { b0(): v9 = div v1 v15; v10 = add v1 v0; print v16; br \
    b0(); b1(): v11 = add v1 v0; scope v0 { b0(): ret v8 }; br b0(); b2(): v12, v13 = pair; br b2() }; print v1; \
    cbr v17 b2() b3(v1, v8); b2(): sink v1 v0; v14 = read; br b3(v5, v0); b3(v15, v16): v17 = add v0 v0; print \
    v0; v18 = const 0; v19 = div v0 v0; br b1(v0); b4(): v20, v21 = pair; v22 = add v21 v20; v23 = read; cbr v21 \
    b4() b3(v22, v23) } => func { b0(v0, v1): scope v0 { b0(v2, v3): v4 = add v3 v2; print v1; ret }; cbr v0 \
    b3(v1, v1) b0(v0, v1); b1(v5): v6 = const 1; v7, v8 = pair; box { b0(): v9 = div v1 v15; v10 = add v1 v0; \
    print v16; br b0(); b1(): v11 = add v1 v0; scope v0 { b0(): ret v8 }; br b0(); b2(): v12, v13 = pair; br \
    b2() }; print v1; cbr v17 b2() b3(v1, v8); b2(): sink v1 v0; v14 = read; br b3(v5, v0); b3(v15, v16): v17 = \
    add v0 v0; print v0; v18 = const 0; v19 = div v0 v0; br b1(v0); b4(): v20, v21 = pair; v22 = add v21 v20; \
    v23 = read; cbr v21 b4() b3(v22, v23) }
random 114 -- U func { b0(v0): v1 = mul v0 v0; sink; v2 = add v1 v1; v3 = div v0 v1; ret v2 v1; b1(v4): print \
    v4; print v4; v5 = read; cbr v5 b2() b3(v4, v5); b2(): v6 = const 1; br b2(); b3(v7, v8): sink v7; br b1(v8) \
    } => func { b0(v0): v1 = mul v0 v0; sink; v2 = add v1 v1; v3 = div v0 v1; ret v2 v1; b1(v4): print v4; print \
    v4; v5 = read; cbr v5 b2() b3(v4, v5); b2(): v6 = const 1; br b2(); b3(v7, v8): sink v7; br b1(v8) }
random 115 -- C func { b0(v0, v1): v2 = add v0 v1; v3 = add v1 v2; v4 = mul v2 v0; br b1(); b1(): print v0; cbr \
    v2 b2() b2(); b2(): v5, v6 = pair; v7 = read; scope { b0(v8, v9): v10 = div v1 v0; ret v2 v4 }; v11, v12 = \
    pair; cbr v2 b0(v3, v6) b0(v5, v6) } => func { b0(v0, v1): v2 = add v0 v1; v3 = add v1 v2; v4 = mul v2 v0; \
    br b1(); b1(): print v0; cbr v2 b2() b2(); b2(): v5, v6 = pair; v7 = read; scope { b0(v8, v9): v10 = div v1 \
    v0; ret v2 v4 }; cbr v2 b0(v3, v6) b0(v5, v6) }
random 116 -- C func { b0(): v0 = read; box { b0(v1): v2 = add v0 v1; v3 = add v1 v0; ret v2 }; sink v0; br \
    b1(); b1(): sink v0; box { b0(): ret v0 v0 }; v4 = mul v0 v0; br b0() } => func { b0(): v0 = read; box { \
    b0(v1): v2 = add v0 v1; v3 = add v1 v0; ret v2 }; sink v0; br b1(); b1(): box { b0(): ret v0 v0 }; v4 = mul \
    v0 v0; br b0() }
random 117 -- C func { b0(v0, v1): box { b0(v2): scope { b0(): v3 = add v0 v1; v4, v5 = pair; br b1(); b1(): v6, \
    v7 = pair; print v6; v8 = const 0; br b1() }; v9 = div v0 v2; v10 = add v1 v2; sink; cbr v10 b0(v9) b0(v9) \
    }; br b1(); b1(): v11, v12 = pair; v13 = add v0 v1; v14 = add v13 v13; ret v13 } => func { b0(v0, v1): box { \
    b0(v2): scope { b0(): v3 = add v0 v1; v4, v5 = pair; br b1(); b1(): print v4; v6 = const 0; br b1() }; v7 = \
    div v0 v2; v8 = add v1 v2; sink; cbr v8 b0(v7) b0(v7) }; br b1(); b1(): v9, v10 = pair; v11 = add v0 v1; v12 \
    = add v11 v11; ret v11 }
random 118 -- C func { b0(): v0, v1 = pair; v2 = const 1; v3, v4 = pair; scope v1 v0 { b0(v5, v6): box { b0(v7): \
    v8, v9 = pair; v10 = const 0; br b2(v9, v7); b1(v11, v12): v13 = add v1 v0; ret v4; b2(v14, v15): v16 = mul \
    v0 v1; cbr v9 b2(v9, v5) b1(v15, v14) }; br b2(v3); b1(): v17 = read; v18 = div v0 v1; v19 = read; cbr v0 \
    b2(v0) b1(); b2(v20): v21, v22 = pair; br b0(v4, v5) }; ret v0 v1; b1(): v23 = read; print v23; cbr v23 b1() \
    b1() } => func { b0(): v0, v1 = pair; v2 = const 1; scope v1 v0 { b0(v3, v4): box { b0(v5): v6, v7 = pair; \
    v8 = const 0; br b2(v7, v5); b1(v9, v10): v11 = add v1 v0; ret v1; b2(v12, v13): v14 = mul v0 v1; cbr v7 \
    b2(v7, v3) b1(v13, v12) }; br b2(v0); b1(): v15 = read; v16 = div v0 v1; v17 = read; cbr v0 b2(v0) b1(); \
    b2(v18): v19, v20 = pair; br b0(v1, v3) }; ret v0 v1; b1(): v21 = read; print v21; cbr v21 b1() b1() }
random 119 -- C func { b0(): v0 = read; scope v0 { b0(v1): v2 = add v0 v1; cbr v1 b0(v2) b0(v1) }; v3, v4 = \
    pair; v5 = add v0 v3; cbr v5 b1(v5, v3) b2(v3); b1(v6, v7): box { b0(v8, v9): v10 = mul v3 v3; v11 = add v3 \
    v0; cbr v3 b1(v11, v7) b1(v4, v5); b1(v12, v13): v14 = read; v15 = div v3 v3; v16 = const 1; ret v16 v11 }; \
    v17 = add v0 v0; print v0; v18 = read; br b0(); b2(v19): scope { b0(): v20, v21 = pair; v22 = mul v3 v3; \
    print v3; v23 = read; ret v0 v21 }; v24 = add v3 v3; v25 = add v3 v0; v26 = add v3 v0; cbr v3 b2(v5) b2(v3) \
    } => func { b0(): v0 = read; scope v0 { b0(v1): v2 = add v0 v1; cbr v1 b0(v2) b0(v1) }; v3, v4 = pair; v5 = \
    add v0 v3; cbr v5 b1(v5, v3) b2(v3); b1(v6, v7): box { b0(v8, v9): v10 = mul v3 v3; v11 = add v3 v0; cbr v3 \
    b1(v11, v7) b1(v4, v5); b1(v12, v13): v14 = read; v15 = div v3 v3; v16 = const 1; ret v16 v11 }; v17 = add \
    v0 v0; print v0; v18 = read; br b0(); b2(v19): scope { b0(): v20, v21 = pair; v22 = mul v3 v3; print v3; v23 \
    = read; ret v0 v21 }; v24 = add v3 v3; v25 = add v3 v0; cbr v3 b2(v5) b2(v3) }
random 120 -- C func { b0(): v0, v1 = pair; v2 = add v1 v0; v3 = mul v2 v0; cbr v0 b1(v3) b2(); b1(v4): print \
    v4; v5 = add v1 v2; print v2; v6 = add v1 v1; ret v1 v6; b2(): v7 = div v1 v3; box { b0(v8): v9 = mul v0 v1; \
    v10 = add v1 v0; v11 = mul v0 v1; br b3(v7); b1(): print v0; v12 = read; br b2(v7); b2(v13): v14 = add v1 \
    v1; sink; scope v1 v1 { b0(): cbr v7 b1() b3(); b1(): v15 = read; cbr v3 b0() b1(); b2(): v16 = const 1; cbr \
    v11 b2() b3(); b3(): v17 = mul v0 v1; cbr v1 b3() b1() }; print v0; ret v14 v13; b3(v18): br b2(v0) }; cbr \
    v1 b1(v1) b0() } => func { b0(): v0, v1 = pair; v2 = add v1 v0; v3 = mul v2 v0; cbr v0 b1(v3) b2(); b1(v4): \
    print v4; v5 = add v1 v2; print v2; v6 = add v1 v1; ret v1 v6; b2(): v7 = div v1 v3; box { b0(v8): v9 = mul \
    v0 v1; br b3(v7); b1(): print v0; v10 = read; br b2(v7); b2(v11): v12 = add v1 v1; sink; scope v1 v1 { b0(): \
    cbr v7 b1() b3(); b1(): v13 = read; cbr v3 b0() b1(); b2(): v14 = const 1; cbr v9 b2() b3(); b3(): cbr v1 \
    b3() b1() }; print v0; ret v12 v11; b3(v15): br b2(v0) }; cbr v1 b1(v1) b0() }
random 121 -- U func { b0(v0): box { b0(): v1 = const 1; v2 = const 0; ret v0; b1(v3): v4 = add v3 v0; br b2(); \
    b2(): print v0; v5 = div v0 v0; v6 = const 1; v7 = read; ret v0; b3(): ret }; v8 = add v0 v0; br b0(v8); \
    b1(): v9, v10 = pair; br b3(v10, v10); b2(v11): v12 = add v11 v11; cbr v11 b3(v12, v12) b0(v12); b3(v13, \
    v14): br b1() } => func { b0(v0): box { b0(): v1 = const 1; v2 = const 0; ret v0; b1(v3): v4 = add v3 v0; br \
    b2(); b2(): print v0; v5 = div v0 v0; v6 = const 1; v7 = read; ret v0; b3(): ret }; v8 = add v0 v0; br \
    b0(v8); b1(): v9, v10 = pair; br b3(v10, v10); b2(v11): v12 = add v11 v11; cbr v11 b3(v12, v12) b0(v12); \
    b3(v13, v14): br b1() }
random 122 -- U func { b0(v0, v1): v2 = add v1 v1; v3, v4 = pair; cbr v4 b0(v2, v3) b0(v1, v2); b1(): v5 = read; \
    br b0(v5, v5) } => func { b0(v0, v1): v2 = add v1 v1; v3, v4 = pair; cbr v4 b0(v2, v3) b0(v1, v2); b1(): v5 \
    = read; br b0(v5, v5) }
random 123 -- C func { b0(): v0 = const 1; cbr v0 b3(v0, v0) b2(v0, v0); b1(): v1 = const 1; ret; b2(v2, v3): \
    v4, v5 = pair; cbr v4 b0() b1(); b3(v6, v7): v8, v9 = pair; v10 = add v9 v0; v11 = const 1; v12 = add v7 v7; \
    cbr v7 b2(v8, v9) b3(v7, v11) } => func { b0(): v0 = const 1; cbr v0 b3(v0, v0) b2(v0, v0); b1(): ret; \
    b2(v1, v2): v3, v4 = pair; cbr v3 b0() b1(); b3(v5, v6): v7, v8 = pair; v9 = add v8 v0; v10 = add v6 v6; cbr \
    v6 b2(v7, v8) b3(v6, v0) }
random 124 -- U func { b0(): v0 = read; print v0; scope { b0(v1, v2): print v1; br b1(); b1(): v3 = div v1 v1; \
    scope v0 v0 { b0(): br b0(); b1(v4): cbr v3 b2(v3) b1(v2); b2(v5): print v3; v6 = add v0 v1; v7 = add v1 v0; \
    v8, v9 = pair; ret v1 }; v10 = read; v11, v12 = pair; cbr v3 b1() b0(v11, v10) }; br b2(v0); b1(): v13 = \
    read; cbr v13 b3() b2(v13); b2(v14): ret v0; b3(): v15 = const 0; v16 = add v15 v15; print v15; print v16; \
    ret v15 } => func { b0(): v0 = read; print v0; scope { b0(v1, v2): print v1; br b1(); b1(): v3 = div v1 v1; \
    scope v0 v0 { b0(): br b0(); b1(v4): cbr v3 b2(v3) b1(v2); b2(v5): print v3; v6 = add v0 v1; v7 = add v1 v0; \
    v8, v9 = pair; ret v1 }; v10 = read; v11, v12 = pair; cbr v3 b1() b0(v11, v10) }; br b2(v0); b1(): v13 = \
    read; cbr v13 b3() b2(v13); b2(v14): ret v0; b3(): v15 = const 0; v16 = add v15 v15; print v15; print v16; \
    ret v15 }
random 125 -- C func { b0(): v0 = const 0; cbr v0 b0() b2(v0, v0); b1(): v1 = const 1; v2 = add v1 v1; v3 = add \
    v2 v2; ret v1; b2(v4, v5): v6 = add v4 v4; v7 = add v4 v4; ret v0; b3(): ret; b4(v8): box { b0(): v9 = div \
    v8 v8; ret v9 v8 }; print v8; scope v8 v8 { b0(v10, v11): v12 = add v8 v8; cbr v11 b1(v11, v8) b0(v10, v10); \
    b1(v13, v14): v15 = div v10 v8; v16 = div v8 v10; v17 = const 0; cbr v16 b2() b0(v15, v17); b2(): print v13; \
    scope { b0(v18): cbr v17 b0(v12) b0(v11) }; cbr v11 b0(v15, v8) b0(v11, v17); b3(v19, v20): ret v19 v8 }; \
    cbr v8 b2(v8, v8) b2(v8, v8) } => func { b0(): v0 = const 0; cbr v0 b0() b2(v0, v0); b1(): v1 = const 1; v2 \
    = add v1 v1; v3 = add v2 v2; ret v1; b2(v4, v5): v6 = add v4 v4; ret v0; b3(): ret; b4(v7): box { b0(): v8 = \
    div v7 v7; ret v8 v7 }; print v7; scope v7 v7 { b0(v9, v10): v11 = add v7 v7; cbr v10 b1(v10, v7) b0(v9, \
    v9); b1(v12, v13): v14 = div v9 v7; v15 = div v7 v9; v16 = const 0; cbr v15 b2() b0(v14, v16); b2(): print \
    v12; scope { b0(v17): cbr v16 b0(v11) b0(v10) }; cbr v10 b0(v14, v7) b0(v10, v16); b3(v18, v19): ret v18 v7 \
    }; cbr v7 b2(v7, v7) b2(v7, v7) }";
