//! Well-defined texts made at random, and what is left of them, as in `cases`: `tools/expected` folds any result or
//! argument that folds, until none is left.

pub static RANDOM: &str = "\
random 101 -- C func { b0(v0): v1 = div v0 v0; cbr v1 b2() b1(v1, v1); b1(v2, v3): v4 = div v1 v3; br b0(v1); \
    b2(): v5, v6 = pair; br b3(v5); b3(v7): v8 = const 1; br b2() } => func { b0(v0): v1 = const 1; v2 = div v0 v0; \
    cbr v1 b2() b1(v1, v1); b1(v3, v4): v5 = div v1 v1; br b0(v1); b2(): v6, v7 = pair; br b3(v6); b3(v8): v9 = \
    const 1; br b2() }
random 104 -- C func { b0(v0): br b1(v0); b1(v1): print v0; ret v1 v1; b2(v2, v3): print v3; ret v2 } => func { \
    b0(v0): br b1(v0); b1(v1): print v0; ret v0 v0; b2(v2, v3): print v3; ret v2 }
random 106 -- C func { b0(): v0 = const 0; v1 = const 1; cbr v0 b4() b2(); b1(v2, v3): br b2(); b2(): scope v1 \
    v1 { b0(v4, v5): v6 = mul v4 v5; br b1(v1); b1(v7): print v7; br b2(v0); b2(v8): print v7; ret v6 v0 }; cbr v0 \
    b3(v1) b4(); b3(v9): v10 = add v0 v9; br b5(v1); b4(): v11, v12 = pair; v13 = read; br b1(v0, v12); b5(v14): v15 \
    = const 1; ret v0 } => func { b0(): v0 = const 0; v1 = const 1; cbr v0 b4() b2(); b1(v2, v3): br b2(); b2(): \
    scope v1 v1 { b0(v4, v5): v6 = mul v4 v5; br b1(v1); b1(v7): print v1; br b2(v0); b2(v8): print v1; ret v6 v0 }; \
    cbr v0 b3(v1) b4(); b3(v9): v10 = add v0 v1; br b5(v1); b4(): v11, v12 = pair; v13 = read; br b1(v0, v12); \
    b5(v14): v15 = const 1; ret v0 }
random 108 -- C func { b0(): v0 = read; br b2(v0); b1(v1, v2): scope v1 { b0(v3): v4 = add v1 v1; v5 = const 1; \
    v6 = add v2 v5; ret v3 }; v7 = read; v8, v9 = pair; br b3(v2, v1); b2(v10): sink v10; print v0; v11, v12 = pair; \
    br b3(v0, v0); b3(v13, v14): v15 = add v10 v14; print v13; cbr v10 b0() b3(v0, v14) } => func { b0(): v0 = read; \
    br b2(v0); b1(v1, v2): scope v1 { b0(v3): v4 = add v1 v1; v5 = const 1; v6 = add v2 v5; ret v3 }; v7 = read; v8, \
    v9 = pair; br b3(v2, v1); b2(v10): sink v0; print v0; v11, v12 = pair; br b3(v0, v0); b3(v13, v14): v15 = add v0 \
    v14; print v13; cbr v0 b0() b3(v0, v14) }
random 110 -- C func { b0(v0): print v0; cbr v0 b1(v0, v0) b5(v0, v0); b1(v1, v2): print v2; ret v0; b2(v3, v4): \
    print v4; sink; v5, v6 = pair; br b3(v3); b3(v7): v8 = div v9 v9; cbr v0 b4() b1(v0, v0); b4(): br b5(v0, v0); \
    b5(v9, v10): v11 = const -1; cbr v10 b3(v9) b3(v9) } => func { b0(v0): print v0; cbr v0 b1(v0, v0) b5(v0, v0); \
    b1(v1, v2): print v0; ret v0; b2(v3, v4): print v4; sink; v5, v6 = pair; br b3(v3); b3(v7): v8 = div v0 v0; cbr \
    v0 b4() b1(v0, v0); b4(): br b5(v0, v0); b5(v9, v10): v11 = const -1; cbr v0 b3(v0) b3(v0) }
random 111 -- C func { b0(v0): print v0; cbr v0 b1(v0, v0) b3(v0, v0); b1(v1, v2): v3 = div v2 v2; v4, v5 = \
    pair; v6 = mul v2 v4; cbr v3 b2(v1) b3(v1, v0); b2(v7): cbr v0 b3(v0, v7) b3(v7, v7); b3(v8, v9): v10 = div v9 \
    v9; scope v0 v10 { b0(): print v9; v11 = const 2; v12 = const 1; br b1(v11); b1(v13): cbr v13 b3(v0, v10) b3(v8, \
    v8); b2(v14): ret; b3(v15, v16): cbr v13 b1(v0) b1(v0) }; br b2(v0) } => func { b0(v0): print v0; cbr v0 b1(v0, \
    v0) b3(v0, v0); b1(v1, v2): v3 = const 1; v4 = div v0 v0; v5, v6 = pair; v7 = mul v0 v5; cbr v3 b2(v0) b3(v0, \
    v0); b2(v8): cbr v0 b3(v0, v0) b3(v0, v0); b3(v9, v10): v11 = const 1; v12 = div v0 v0; scope v0 v11 { b0(): \
    print v0; v13 = const 2; v14 = const 1; br b1(v13); b1(v15): cbr v15 b3(v0, v11) b3(v0, v0); b2(v16): ret; \
    b3(v17, v18): cbr v15 b1(v0) b1(v0) }; br b2(v0) }
random 112 -- C func { b0(v0): v1 = mul v0 v0; cbr v0 b4(v1) b2(v1, v0); b1(v2, v3): v4 = const 2; v5, v6 = \
    pair; cbr v6 b4(v2) b3(v4); b2(v7, v8): v9, v10 = pair; cbr v8 b4(v0) b4(v0); b3(v11): v12 = div v11 v11; ret; \
    b4(v13): v14 = div v13 v0; v15 = mul v0 v13; ret; b5(v16): v17 = add v16 v16; v18 = add v16 v17; v19 = mul v17 \
    v17; ret v16 } => func { b0(v0): v1 = mul v0 v0; cbr v0 b4(v1) b2(v1, v0); b1(v2, v3): v4 = const 2; v5, v6 = \
    pair; cbr v6 b4(v2) b3(v4); b2(v7, v8): v9, v10 = pair; cbr v0 b4(v0) b4(v0); b3(v11): v12 = div v11 v11; ret; \
    b4(v13): v14 = div v13 v0; v15 = mul v0 v13; ret; b5(v16): v17 = add v16 v16; v18 = add v16 v17; v19 = mul v17 \
    v17; ret v16 }
random 113 -- C func { b0(v0): v1 = mul v0 v0; v2 = read; cbr v0 b2(v0, v2) b0(v1); b1(): v3 = read; v4 = mul \
    v12 v12; scope v1 { b0(): print v13; br b2(v2); b1(v5): v6 = mul v11 v3; ret; b2(v7): v8 = div v3 v4; cbr v11 \
    b3(v0) b3(v0); b3(v9): v10 = add v9 v8; ret v7 v4 }; br b2(v0, v12); b2(v11, v12): v13 = add v0 v1; br b1() } => \
    func { b0(v0): v1 = mul v0 v0; v2 = read; cbr v0 b2(v0, v2) b0(v1); b1(): v3 = read; v4 = mul v2 v2; scope v1 { \
    b0(): print v13; br b2(v2); b1(v5): v6 = mul v0 v3; ret; b2(v7): v8 = div v3 v4; cbr v0 b3(v0) b3(v0); b3(v9): \
    v10 = add v0 v8; ret v2 v4 }; br b2(v0, v2); b2(v11, v12): v13 = add v0 v1; br b1() }
random 116 -- C func { b0(): v0 = read; br b4(v0, v0); b1(): cbr v10 b2(v8) b4(v8, v0); b2(v1): v2 = const 0; \
    sink v9; br b3(v8, v8); b3(v3, v4): v5 = read; v6, v7 = pair; cbr v4 b4(v1, v0) b4(v8, v0); b4(v8, v9): v10 = \
    mul v9 v9; cbr v10 b1() b4(v8, v9) } => func { b0(): v0 = read; br b4(v0, v0); b1(): cbr v10 b2(v0) b4(v0, v0); \
    b2(v1): v2 = const 0; sink v0; br b3(v0, v0); b3(v3, v4): v5 = read; v6, v7 = pair; cbr v0 b4(v0, v0) b4(v0, \
    v0); b4(v8, v9): v10 = mul v0 v0; cbr v10 b1() b4(v0, v0) }
random 119 -- U func { b0(v0): v1 = add v0 v0; br b2(); b1(v2, v3): v4 = div v2 v2; br b4(v2, v3); b2(): ret; \
    b3(): v5, v6 = pair; cbr v6 b3() b0(v5); b4(v7, v8): print v8; v9, v10 = pair; ret v7 v7 } => func { b0(v0): v1 \
    = add v0 v0; br b2(); b1(v2, v3): v4 = div v2 v2; br b4(v2, v3); b2(): ret; b3(): v5, v6 = pair; cbr v6 b3() \
    b0(v5); b4(v7, v8): print v8; v9, v10 = pair; ret v7 v7 }
random 121 -- C func { b0(v0): v1 = div v0 v0; v2 = div v0 v1; scope { b0(v3): v4 = div v1 v1; br b1(v3, v4); \
    b1(v5, v6): cbr v6 b2(v0, v1) b2(v0, v4); b2(v7, v8): v9 = div v7 v6; cbr v6 b0(v1) b0(v0) }; cbr v2 b0(v1) \
    b1(v0, v1); b1(v10, v11): v12 = div v2 v1; br b1(v1, v11); b2(v13): ret } => func { b0(v0): v1 = const 1; v2 = \
    div v0 v0; v3 = div v0 v1; scope { b0(v4): v5 = const 1; v6 = div v1 v1; br b1(v4, v5); b1(v7, v8): cbr v5 \
    b2(v0, v1) b2(v0, v5); b2(v9, v10): v11 = div v0 v5; cbr v5 b0(v1) b0(v0) }; cbr v3 b0(v1) b1(v0, v1); b1(v12, \
    v13): v14 = div v3 v1; br b1(v1, v1); b2(v15): ret }
random 122 -- C func { b0(v0): print v0; v1, v2 = pair; print v1; cbr v1 b1() b2(v2); b1(): br b3(v0); b2(v3): \
    v4 = div v1 v3; br b2(v3); b3(v5): sink v2; br b0(v0) } => func { b0(v0): print v0; v1, v2 = pair; print v1; cbr \
    v1 b1() b2(v2); b1(): br b3(v0); b2(v3): v4 = div v1 v2; br b2(v2); b3(v5): sink v2; br b0(v0) }
random 123 -- C func { b0(v0): v1 = mul v0 v0; br b1(); b1(): cbr v1 b2(v1, v0) b2(v1, v1); b2(v2, v3): sink; \
    scope v3 { b0(v4): cbr v3 b1() b1(); b1(): v5 = add v4 v3; cbr v3 b1() b0(v0) }; ret v0 v2 } => func { b0(v0): \
    v1 = mul v0 v0; br b1(); b1(): cbr v1 b2(v1, v0) b2(v1, v1); b2(v2, v3): sink; scope v3 { b0(v4): cbr v3 b1() \
    b1(); b1(): v5 = add v4 v3; cbr v3 b1() b0(v0) }; ret v0 v1 }
random 126 -- C func { b0(v0, v1): v2 = div v1 v1; v3 = div v0 v0; cbr v2 b0(v0, v1) b1(v1); b1(v4): cbr v4 \
    b2(v1) b2(v0); b2(v5): v6 = read; v7 = mul v6 v6; print v5; ret v6 } => func { b0(v0, v1): v2 = const 1; v3 = \
    div v1 v1; v4 = div v0 v0; cbr v2 b0(v0, v1) b1(v1); b1(v5): cbr v1 b2(v1) b2(v0); b2(v6): v7 = read; v8 = mul \
    v7 v7; print v6; ret v7 }
random 131 -- U func { b0(v0): sink v0 v0; v1 = mul v0 v0; cbr v0 b0(v0) b1(); b1(): v2 = mul v1 v0; print v1; \
    scope v2 { b0(v3, v4): v5 = add v1 v2; ret v5; b1(v6): ret v6 v0 }; br b4(); b2(v7, v8): scope v8 { b0(): ret }; \
    cbr v7 b4() b1(); b3(v9): v10 = div v9 v9; br b4(); b4(): v11 = div v1 v0; br b1() } => func { b0(v0): sink v0 \
    v0; v1 = mul v0 v0; cbr v0 b0(v0) b1(); b1(): v2 = mul v1 v0; print v1; scope v2 { b0(v3, v4): v5 = add v1 v2; \
    ret v5; b1(v6): ret v6 v0 }; br b4(); b2(v7, v8): scope v8 { b0(): ret }; cbr v7 b4() b1(); b3(v9): v10 = div v9 \
    v9; br b4(); b4(): v11 = div v1 v0; br b1() }
random 134 -- U func { b0(v0): print v0; br b2(); b1(v1): v2 = mul v1 v1; cbr v1 b5(v2, v1) b0(v1); b2(): v3 = \
    mul v0 v0; v4 = const 2; v5 = add v0 v0; br b5(v3, v4); b3(v6, v7): v8 = add v7 v6; v9 = mul v6 v8; v10, v11 = \
    pair; br b4(); b4(): v12 = const 1; cbr v12 b5(v12, v12) b5(v12, v12); b5(v13, v14): print v0; ret v3 } => func \
    { b0(v0): print v0; br b2(); b1(v1): v2 = mul v1 v1; cbr v1 b5(v2, v1) b0(v1); b2(): v3 = mul v0 v0; v4 = const \
    2; v5 = add v0 v0; br b5(v3, v4); b3(v6, v7): v8 = add v7 v6; v9 = mul v6 v8; v10, v11 = pair; br b4(); b4(): \
    v12 = const 1; cbr v12 b5(v12, v12) b5(v12, v12); b5(v13, v14): print v0; ret v3 }
random 136 -- C func { b0(): v0 = read; br b1(v0, v0); b1(v1, v2): print v0; br b5(v2); b2(v3, v4): v5, v6 = \
    pair; cbr v5 b3(v3) b4(v6, v4); b3(v7): v8 = read; br b5(v8); b4(v9, v10): v11 = read; v12 = add v10 v9; cbr v11 \
    b0() b5(v10); b5(v13): cbr v1 b0() b0() } => func { b0(): v0 = read; br b1(v0, v0); b1(v1, v2): print v0; br \
    b5(v0); b2(v3, v4): v5, v6 = pair; cbr v5 b3(v3) b4(v6, v4); b3(v7): v8 = read; br b5(v8); b4(v9, v10): v11 = \
    read; v12 = add v10 v9; cbr v11 b0() b5(v10); b5(v13): cbr v0 b0() b0() }
random 137 -- C func { b0(v0): v1 = div v0 v0; br b2(v0); b1(v2, v3): v4 = read; ret; b2(v5): v6 = div v0 v0; br \
    b2(v5) } => func { b0(v0): v1 = div v0 v0; br b2(v0); b1(v2, v3): v4 = read; ret; b2(v5): v6 = div v0 v0; br \
    b2(v0) }
random 138 -- C func { b0(v0, v1): print v1; cbr v0 b1(v0, v1) b2(v1); b1(v2, v3): scope { b0(v4, v5): ret }; \
    sink v3 v1; v6 = add v0 v2; br b2(v0); b2(v7): print v7; v8 = div v7 v7; ret v0; b3(v9): v10 = mul v9 v9; br \
    b0(v10, v10) } => func { b0(v0, v1): print v1; cbr v0 b1(v0, v1) b2(v1); b1(v2, v3): scope { b0(v4, v5): ret }; \
    sink v1 v1; v6 = add v0 v0; br b2(v0); b2(v7): print v7; v8 = div v7 v7; ret v0; b3(v9): v10 = mul v9 v9; br \
    b0(v10, v10) }
random 147 -- C func { b0(v0, v1): v2 = add v0 v1; v3 = add v1 v0; scope { b0(v4): v5 = mul v1 v3; cbr v4 b1(v1) \
    b1(v1); b1(v6): v7 = add v1 v4; v8, v9 = pair; cbr v6 b0(v0) b0(v8) }; br b2(v1, v0); b1(v10, v11): print v10; \
    scope v10 { b0(v12): cbr v12 b1() b1(); b1(): v13 = div v12 v10; cbr v11 b0(v12) b0(v11) }; ret; b2(v14, v15): \
    print v3; print v14; v16 = read; cbr v2 b3(v0) b2(v14, v15); b3(v17): print v15; ret } => func { b0(v0, v1): v2 \
    = add v0 v1; v3 = add v1 v0; scope { b0(v4): v5 = mul v1 v3; cbr v4 b1(v1) b1(v1); b1(v6): v7 = add v1 v4; v8, \
    v9 = pair; cbr v1 b0(v0) b0(v8) }; br b2(v1, v0); b1(v10, v11): print v10; scope v10 { b0(v12): cbr v12 b1() \
    b1(); b1(): v13 = div v12 v10; cbr v11 b0(v12) b0(v11) }; ret; b2(v14, v15): print v3; print v1; v16 = read; cbr \
    v2 b3(v0) b2(v1, v0); b3(v17): print v0; ret }
random 148 -- C func { b0(): v0 = read; print v0; v1 = mul v0 v0; br b1(v1, v1); b1(v2, v3): v4 = div v1 v3; v5 \
    = mul v1 v2; sink v4; br b4(v5); b2(v6): v7 = div v6 v6; v8 = const 1; cbr v6 b3(v7) b5(); b3(v9): sink; v10 = \
    div v9 v9; v11 = add v9 v10; ret v11 v9; b4(v12): cbr v3 b5() b5(); b5(): v13, v14 = pair; ret v12 v3 } => func \
    { b0(): v0 = read; print v0; v1 = mul v0 v0; br b1(v1, v1); b1(v2, v3): v4 = const 1; v5 = div v1 v1; v6 = mul \
    v1 v1; sink v4; br b4(v6); b2(v7): v8 = div v7 v7; v9 = const 1; cbr v7 b3(v8) b5(); b3(v10): sink; v11 = div \
    v10 v10; v12 = add v10 v11; ret v12 v10; b4(v13): cbr v1 b5() b5(); b5(): v14, v15 = pair; ret v6 v1 }
random 149 -- C func { b0(): v0 = const 1; br b1(v0); b1(v1): v2 = const 2; br b2(v1, v1); b2(v3, v4): print v3; \
    ret } => func { b0(): v0 = const 1; br b1(v0); b1(v1): v2 = const 2; br b2(v0, v0); b2(v3, v4): print v0; ret }
random 150 -- C func { b0(v0, v1): v2 = mul v0 v0; print v1; br b1(v1); b1(v3): print v0; print v3; v4 = add v2 \
    v2; br b4(v0, v2); b2(v5): v6 = div v5 v5; cbr v5 b3(v5) b3(v6); b3(v7): print v7; br b4(v7, v7); b4(v8, v9): \
    v10 = const 0; ret v4 v2 } => func { b0(v0, v1): v2 = mul v0 v0; print v1; br b1(v1); b1(v3): print v0; print \
    v1; v4 = add v2 v2; br b4(v0, v2); b2(v5): v6 = div v5 v5; cbr v5 b3(v5) b3(v6); b3(v7): print v7; br b4(v7, \
    v7); b4(v8, v9): v10 = const 0; ret v4 v2 }
random 152 -- U func { b0(v0): v1 = mul v0 v0; v2 = const 0; ret; b1(v3, v4): ret; b2(v5): br b4(); b3(): v6, v7 \
    = pair; br b1(v6, v6); b4(): v8 = read; br b2(v8); b5(): v9 = const 1; cbr v9 b4() b2(v9) } => func { b0(v0): v1 \
    = mul v0 v0; v2 = const 0; ret; b1(v3, v4): ret; b2(v5): br b4(); b3(): v6, v7 = pair; br b1(v6, v6); b4(): v8 = \
    read; br b2(v8); b5(): v9 = const 1; cbr v9 b4() b2(v9) }
random 153 -- C func { b0(): v0 = const 1; br b4(v0); b1(): v1 = add v16 v19; cbr v19 b3(v6, v0) b1(); b2(v2): \
    print v17; cbr v0 b4(v6) b5(v0, v17); b3(v3, v4): v5 = add v0 v0; print v5; br b2(v6); b4(v6): scope v0 v0 { \
    b0(v7): v8 = mul v7 v6; v9 = const -1; v10 = const 0; cbr v0 b1(v9) b2(v8); b1(v11): cbr v10 b2(v6) b2(v11); \
    b2(v12): v13 = add v8 v8; v14, v15 = pair; cbr v8 b0(v6) b1(v6) }; print v0; br b5(v6, v0); b5(v16, v17): v18, \
    v19 = pair; br b1() } => func { b0(): v0 = const 1; br b4(v0); b1(): v1 = add v0 v20; cbr v20 b3(v0, v0) b1(); \
    b2(v2): print v0; cbr v0 b4(v0) b5(v0, v0); b3(v3, v4): v5 = const 2; v6 = add v0 v0; print v5; br b2(v0); \
    b4(v7): scope v0 v0 { b0(v8): v9 = mul v8 v0; v10 = const -1; v11 = const 0; cbr v0 b1(v10) b2(v9); b1(v12): cbr \
    v11 b2(v0) b2(v12); b2(v13): v14 = add v9 v9; v15, v16 = pair; cbr v9 b0(v0) b1(v0) }; print v0; br b5(v0, v0); \
    b5(v17, v18): v19, v20 = pair; br b1() }
random 155 -- C func { b0(v0, v1): cbr v0 b1(v1, v1) b2(v0); b1(v2, v3): v4 = add v3 v2; ret; b2(v5): ret v1 v0; \
    b3(v6): sink v6; v7 = read; cbr v6 b4() b4(); b4(): v8 = const 2; ret v8 } => func { b0(v0, v1): cbr v0 b1(v1, \
    v1) b2(v0); b1(v2, v3): v4 = add v1 v1; ret; b2(v5): ret v1 v0; b3(v6): sink v6; v7 = read; cbr v6 b4() b4(); \
    b4(): v8 = const 2; ret v8 }
random 156 -- C func { b0(v0, v1): v2 = add v1 v1; v3 = const 0; v4 = add v1 v3; br b3(v1); b1(v5): v6 = read; \
    scope v5 v5 { b0(v7): v8 = mul v5 v7; br b0(v6); b1(v9, v10): br b1(v9, v5) }; v11 = const 2; cbr v11 b3(v6) \
    b3(v11); b2(v12): print v18; v13 = const 2; sink v12; ret v2; b3(v14): sink; v15 = div v3 v2; print v3; cbr v14 \
    b4(v0) b4(v0); b4(v16): v17 = const -1; v18 = div v14 v14; cbr v18 b2(v16) b5(v15); b5(v19): ret v14 v3 } => \
    func { b0(v0, v1): v2 = add v1 v1; v3 = const 0; v4 = add v1 v3; br b3(v1); b1(v5): v6 = read; scope v5 v5 { \
    b0(v7): v8 = mul v5 v7; br b0(v6); b1(v9, v10): br b1(v9, v5) }; v11 = const 2; cbr v11 b3(v6) b3(v11); b2(v12): \
    print v18; v13 = const 2; sink v0; ret v2; b3(v14): sink; v15 = div v3 v2; print v3; cbr v14 b4(v0) b4(v0); \
    b4(v16): v17 = const -1; v18 = const 1; v19 = div v14 v14; cbr v18 b2(v0) b5(v3); b5(v20): ret v14 v3 }
random 158 -- C func { b0(): v0 = const 1; cbr v0 b1() b0(); b1(): v1 = const 2; cbr v1 b2(v0, v0) b3(v0); \
    b2(v2, v3): v4, v5 = pair; ret v2 v1; b3(v6): v7, v8 = pair; ret v6 } => func { b0(): v0 = const 1; cbr v0 b1() \
    b0(); b1(): v1 = const 2; cbr v1 b2(v0, v0) b3(v0); b2(v2, v3): v4, v5 = pair; ret v0 v1; b3(v6): v7, v8 = pair; \
    ret v0 }
random 159 -- C func { b0(v0): v1, v2 = pair; v3 = read; cbr v1 b1(v1, v0) b4(v0); b1(v4, v5): v6 = div v4 v5; \
    br b4(v3); b2(v7): print v7; br b4(v7); b3(v8): v9 = mul v8 v8; sink v9 v9; v10 = div v8 v8; br b4(v8); b4(v11): \
    v12, v13 = pair; v14 = const 1; print v12; cbr v14 b5() b5(); b5(): v15 = mul v13 v11; v16 = mul v2 v14; ret v13 \
    v1 } => func { b0(v0): v1, v2 = pair; v3 = read; cbr v1 b1(v1, v0) b4(v0); b1(v4, v5): v6 = div v1 v0; br \
    b4(v3); b2(v7): print v7; br b4(v7); b3(v8): v9 = mul v8 v8; sink v9 v9; v10 = div v8 v8; br b4(v8); b4(v11): \
    v12, v13 = pair; v14 = const 1; print v12; cbr v14 b5() b5(); b5(): v15 = mul v13 v11; v16 = mul v2 v14; ret v13 \
    v1 }
random 161 -- C func { b0(v0): v1 = mul v0 v0; v2 = read; v3 = div v1 v0; cbr v3 b1(v1) b1(v1); b1(v4): print \
    v1; sink v4; v5 = const -1; cbr v2 b0(v0) b2(v1, v0); b2(v6, v7): sink v4; print v6; print v4; ret v3; b3(): v8 \
    = const 2; ret v8 } => func { b0(v0): v1 = mul v0 v0; v2 = read; v3 = div v1 v0; cbr v3 b1(v1) b1(v1); b1(v4): \
    print v1; sink v1; v5 = const -1; cbr v2 b0(v0) b2(v1, v0); b2(v6, v7): sink v1; print v1; print v1; ret v3; \
    b3(): v8 = const 2; ret v8 }
random 162 -- C func { b0(v0): cbr v0 b1(v0) b1(v0); b1(v1): v2 = const -1; v3 = const 2; v4, v5 = pair; br \
    b2(v0, v1); b2(v6, v7): v8 = div v6 v3; cbr v0 b2(v6, v3) b1(v1) } => func { b0(v0): cbr v0 b1(v0) b1(v0); \
    b1(v1): v2 = const -1; v3 = const 2; v4, v5 = pair; br b2(v0, v0); b2(v6, v7): v8 = div v0 v3; cbr v0 b2(v0, v3) \
    b1(v0) }
random 163 -- C func { b0(v0): v1 = div v0 v0; br b1(v0, v0); b1(v2, v3): v4 = add v1 v0; br b2(v0); b2(v5): v6 \
    = mul v2 v4; sink v5; v7 = mul v5 v3; br b5(v0); b3(v8): v9 = const 0; print v8; v10 = mul v9 v8; ret v8 v9; \
    b4(v11): v12 = div v11 v11; cbr v11 b5(v11) b5(v11); b5(v13): sink; cbr v0 b1(v2, v1) b2(v0) } => func { b0(v0): \
    v1 = const 1; v2 = div v0 v0; br b1(v0, v0); b1(v3, v4): v5 = add v1 v0; br b2(v0); b2(v6): v7 = mul v0 v5; sink \
    v0; v8 = mul v0 v4; br b5(v0); b3(v9): v10 = const 0; print v9; v11 = mul v10 v9; ret v9 v10; b4(v12): v13 = div \
    v12 v12; cbr v12 b5(v12) b5(v12); b5(v14): sink; cbr v0 b1(v0, v1) b2(v0) }
random 164 -- C func { b0(v0): print v0; v1 = read; cbr v0 b1(v0) b2(v1, v0); b1(v2): ret; b2(v3, v4): v5 = \
    const 0; v6 = const 0; cbr v3 b1(v0) b0(v1) } => func { b0(v0): print v0; v1 = read; cbr v0 b1(v0) b2(v1, v0); \
    b1(v2): ret; b2(v3, v4): v5 = const 0; v6 = const 0; cbr v1 b1(v0) b0(v1) }
random 165 -- C func { b0(): v0, v1 = pair; v2 = const 2; v3, v4 = pair; cbr v3 b1(v1, v0) b2(); b1(v5, v6): v7 \
    = mul v4 v5; cbr v7 b2() b2(); b2(): v8 = mul v1 v2; v9 = const 2; v10 = add v9 v8; ret } => func { b0(): v0, v1 \
    = pair; v2 = const 2; v3, v4 = pair; cbr v3 b1(v1, v0) b2(); b1(v5, v6): v7 = mul v4 v1; cbr v7 b2() b2(); b2(): \
    v8 = mul v1 v2; v9 = const 2; v10 = add v9 v8; ret }
random 168 -- C func { b0(v0): br b1(v0, v0); b1(v1, v2): v3 = const 0; v4 = add v1 v3; cbr v3 b2(v1) b2(v1); \
    b2(v5): v6 = const -1; v7 = const -1; ret } => func { b0(v0): br b1(v0, v0); b1(v1, v2): v3 = const 0; v4 = add \
    v0 v3; cbr v3 b2(v0) b2(v0); b2(v5): v6 = const -1; v7 = const -1; ret }
random 171 -- C func { b0(v0, v1): v2 = mul v0 v1; v3 = add v2 v2; v4 = div v0 v1; br b2(v1, v1); b1(): v5 = \
    read; br b1(); b2(v6, v7): v8 = const -1; br b4(v7, v1); b3(v9): v10 = add v9 v9; v11 = div v10 v10; v12 = const \
    1; br b4(v10, v9); b4(v13, v14): print v2; br b5(v1); b5(v15): v16 = add v13 v8; sink v13; ret v0 } => func { \
    b0(v0, v1): v2 = mul v0 v1; v3 = add v2 v2; v4 = div v0 v1; br b2(v1, v1); b1(): v5 = read; br b1(); b2(v6, v7): \
    v8 = const -1; br b4(v1, v1); b3(v9): v10 = add v9 v9; v11 = div v10 v10; v12 = const 1; br b4(v10, v9); b4(v13, \
    v14): print v2; br b5(v1); b5(v15): v16 = add v13 v8; sink v13; ret v0 }
random 172 -- C func { b0(v0): v1 = const 0; cbr v1 b4() b1(v1); b1(v2): v3 = div v2 v0; sink v3; print v3; cbr \
    v3 b0(v1) b3(v1); b2(v4): print v4; cbr v4 b3(v4) b3(v4); b3(v5): v6 = mul v5 v1; br b4(); b4(): v7 = div v0 v1; \
    v8 = mul v1 v0; v9 = add v0 v0; ret v7 v1 } => func { b0(v0): v1 = const 0; cbr v1 b4() b1(v1); b1(v2): v3 = div \
    v1 v0; sink v1; print v1; cbr v1 b0(v1) b3(v1); b2(v4): print v4; cbr v4 b3(v4) b3(v4); b3(v5): v6 = mul v5 v1; \
    br b4(); b4(): v7 = div v0 v1; v8 = mul v1 v0; v9 = add v0 v0; ret v7 v1 }
random 173 -- C func { b0(v0, v1): v2 = const 1; br b2(v0); b1(v3): v4 = div v3 v3; cbr v4 b3(v4, v3) b1(v3); \
    b2(v5): v6 = div v1 v1; print v5; br b3(v1, v1); b3(v7, v8): cbr v8 b2(v5) b4(); b4(): v9 = div v8 v7; v10 = \
    read; ret v1 v8 } => func { b0(v0, v1): v2 = const 1; br b2(v0); b1(v3): v4 = div v3 v3; cbr v4 b3(v4, v3) \
    b1(v3); b2(v5): v6 = div v1 v1; print v0; br b3(v1, v1); b3(v7, v8): cbr v8 b2(v0) b4(); b4(): v9 = div v8 v7; \
    v10 = read; ret v1 v8 }
random 174 -- C func { b0(v0, v1): print v0; print v1; br b1(); b1(): scope v1 v0 { b0(): v2 = const 2; v3 = \
    const 0; br b2(v0, v1); b1(v4): v5 = div v8 v4; cbr v8 b2(v6, v7) b2(v6, v1); b2(v6, v7): print v6; br b3(v7, \
    v1); b3(v8, v9): cbr v2 b0() b1(v7) }; v10 = div v0 v0; v11 = add v1 v10; ret; b2(v12, v13): v14 = read; v15 = \
    add v13 v13; ret } => func { b0(v0, v1): print v0; print v1; br b1(); b1(): scope v1 v0 { b0(): v2 = const 2; v3 \
    = const 0; br b2(v0, v1); b1(v4): v5 = div v1 v1; cbr v1 b2(v0, v1) b2(v0, v1); b2(v6, v7): print v0; br b3(v1, \
    v1); b3(v8, v9): cbr v2 b0() b1(v1) }; v10 = const 1; v11 = div v0 v0; v12 = add v1 v10; ret; b2(v13, v14): v15 \
    = read; v16 = add v14 v14; ret }
random 175 -- C func { b0(v0): cbr v0 b3(v0) b2(v0); b1(): print v3; cbr v5 b4() b5(v4, v0); b2(v1): cbr v1 \
    b2(v1) b4(); b3(v2): v3 = mul v2 v0; br b5(v2, v0); b4(): ret; b5(v4, v5): cbr v0 b0(v0) b1() } => func { \
    b0(v0): cbr v0 b3(v0) b2(v0); b1(): print v3; cbr v0 b4() b5(v0, v0); b2(v1): cbr v0 b2(v0) b4(); b3(v2): v3 = \
    mul v0 v0; br b5(v0, v0); b4(): ret; b5(v4, v5): cbr v0 b0(v0) b1() }
random 5003 -- U func { b0(v0, v1): cbr v0 b3(v0, v1) b1(v0); b1(v2): sink; br b3(v1, v0); b2(v3, v4): v5 = \
    read; br b3(v5, v3); b3(v6, v7): v8 = add v1 v0; cbr v0 b3(v0, v7) b3(v1, v7) } => func { b0(v0, v1): cbr v0 \
    b3(v0, v1) b1(v0); b1(v2): sink; br b3(v1, v0); b2(v3, v4): v5 = read; br b3(v5, v3); b3(v6, v7): v8 = add v1 \
    v0; cbr v0 b3(v0, v7) b3(v1, v7) }
random 5005 -- C func { b0(v0): v1 = div v0 v0; cbr v1 b1() b1(); b1(): v2 = mul v1 v0; sink; scope v0 v2 { \
    b0(v3): v4 = const 1; print v3; br b1(); b1(): v5 = const 2; ret }; ret v0; b2(v6): scope { b0(v7): v8 = div v7 \
    v6; cbr v7 b1(v6) b2(); b1(v9): v10 = const 0; cbr v6 b2() b3(v7, v10); b2(): v11 = mul v7 v6; br b3(v6, v6); \
    b3(v12, v13): v14 = add v12 v7; v15 = div v8 v8; ret }; cbr v6 b1() b3(v6, v6); b3(v16, v17): sink; v18 = mul \
    v17 v17; v19 = div v17 v17; ret v19 v19 } => func { b0(v0): v1 = const 1; v2 = div v0 v0; cbr v1 b1() b1(); \
    b1(): v3 = mul v1 v0; sink; scope v0 v3 { b0(v4): v5 = const 1; print v4; br b1(); b1(): v6 = const 2; ret }; \
    ret v0; b2(v7): scope { b0(v8): v9 = div v8 v7; cbr v8 b1(v7) b2(); b1(v10): v11 = const 0; cbr v7 b2() b3(v8, \
    v11); b2(): v12 = mul v8 v7; br b3(v7, v7); b3(v13, v14): v15 = add v13 v8; v16 = div v9 v9; ret }; cbr v7 b1() \
    b3(v7, v7); b3(v17, v18): sink; v19 = mul v18 v18; v20 = div v18 v18; ret v20 v20 }
random 5006 -- U func { b0(v0): v1 = const 1; br b1(); b1(): ret; b2(v2): sink; v3 = add v2 v2; br b3(v3); \
    b3(v4): v5 = add v4 v4; br b2(v4) } => func { b0(v0): v1 = const 1; br b1(); b1(): ret; b2(v2): sink; v3 = add \
    v2 v2; br b3(v3); b3(v4): v5 = add v4 v4; br b2(v4) }
random 5007 -- C func { b0(v0): v1 = div v0 v0; cbr v1 b1(v1) b2(v1, v1); b1(v2): v3, v4 = pair; sink v2; br \
    b2(v0, v0); b2(v5, v6): sink v1; br b1(v0); b3(): v7 = read; br b1(v7) } => func { b0(v0): v1 = const 1; v2 = \
    div v0 v0; cbr v1 b1(v1) b2(v1, v1); b1(v3): v4, v5 = pair; sink v3; br b2(v0, v0); b2(v6, v7): sink v1; br \
    b1(v0); b3(): v8 = read; br b1(v8) }
random 5008 -- C func { b0(v0): v1 = add v0 v0; br b2(v0); b1(v2): v3 = mul v4 v1; br b2(v4); b2(v4): v5 = const \
    0; cbr v0 b1(v1) b1(v1) } => func { b0(v0): v1 = add v0 v0; br b2(v0); b1(v2): v3 = mul v0 v1; br b2(v0); \
    b2(v4): v5 = const 0; cbr v0 b1(v1) b1(v1) }
random 5009 -- C func { b0(v0): v1 = div v0 v0; v2 = const 2; v3 = add v1 v2; ret; b1(v4): ret v4; b2(v5): v6 = \
    const -1; br b4(v5); b3(v7): v8 = read; br b4(v7); b4(v9): v10 = mul v9 v9; br b0(v10) } => func { b0(v0): v1 = \
    const 1; v2 = div v0 v0; v3 = const 2; v4 = add v1 v3; ret; b1(v5): ret v5; b2(v6): v7 = const -1; br b4(v6); \
    b3(v8): v9 = read; br b4(v8); b4(v10): v11 = mul v10 v10; br b0(v11) }
random 5010 -- C func { b0(): v0 = const 1; cbr v0 b4(v0) b3(v0); b1(v1, v2): v3 = div v1 v2; cbr v3 b1(v1, v1) \
    b4(v2); b2(v4): br b4(v0); b3(v5): v6 = add v5 v0; v7 = mul v5 v6; cbr v5 b2(v0) b4(v5); b4(v8): print v0; v9 = \
    div v0 v0; ret } => func { b0(): v0 = const 1; cbr v0 b4(v0) b3(v0); b1(v1, v2): v3 = div v1 v2; cbr v3 b1(v1, \
    v1) b4(v2); b2(v4): br b4(v0); b3(v5): v6 = const 2; v7 = add v0 v0; v8 = mul v0 v6; cbr v0 b2(v0) b4(v0); \
    b4(v9): print v0; v10 = div v0 v0; ret }
random 5013 -- C func { b0(v0, v1): print v0; v2 = const 0; scope { b0(): v3 = read; br b2(v0); b1(v4): v5 = mul \
    v1 v4; br b0(); b2(v6): v7 = div v3 v0; print v6; ret v2 v7 }; cbr v1 b1(v0, v0) b4(v1, v2); b1(v8, v9): v10 = \
    mul v1 v9; ret; b2(v11, v12): print v12; cbr v12 b4(v12, v12) b0(v12, v12); b3(v13): print v13; sink v13 v13; \
    v14 = div v13 v13; br b2(v13, v14); b4(v15, v16): v17 = div v15 v2; v18 = mul v1 v17; ret } => func { b0(v0, \
    v1): print v0; v2 = const 0; scope { b0(): v3 = read; br b2(v0); b1(v4): v5 = mul v1 v4; br b0(); b2(v6): v7 = \
    div v3 v0; print v0; ret v2 v7 }; cbr v1 b1(v0, v0) b4(v1, v2); b1(v8, v9): v10 = mul v1 v0; ret; b2(v11, v12): \
    print v12; cbr v12 b4(v12, v12) b0(v12, v12); b3(v13): print v13; sink v13 v13; v14 = div v13 v13; br b2(v13, \
    v14); b4(v15, v16): v17 = div v15 v2; v18 = mul v1 v17; ret }
random 5014 -- C func { b0(v0): v1 = div v0 v0; sink; cbr v1 b1(v1, v1) b2(v0); b1(v2, v3): sink v0; v4 = div v0 \
    v1; v5 = div v4 v1; cbr v2 b2(v1) b3(v4); b2(v6): ret v1; b3(v7): v8 = div v7 v1; v9 = mul v7 v7; br b1(v2, v3) \
    } => func { b0(v0): v1 = const 1; v2 = div v0 v0; sink; cbr v1 b1(v1, v1) b2(v0); b1(v3, v4): sink v0; v5 = div \
    v0 v1; v6 = div v5 v1; cbr v1 b2(v1) b3(v5); b2(v7): ret v1; b3(v8): v9 = div v5 v1; v10 = mul v5 v5; br b1(v1, \
    v1) }
random 5018 -- C func { b0(v0): scope { b0(v1, v2): br b0(v0, v1); b1(v3, v4): br b0(v0, v0) }; v5 = div v0 v0; \
    v6, v7 = pair; br b2(); b1(v8): ret; b2(): v9 = add v5 v6; v10 = div v6 v7; v11 = mul v9 v7; ret v0 v11 } => \
    func { b0(v0): scope { b0(v1, v2): br b0(v0, v1); b1(v3, v4): br b0(v0, v0) }; v5 = const 1; v6 = div v0 v0; v7, \
    v8 = pair; br b2(); b1(v9): ret; b2(): v10 = add v5 v7; v11 = div v7 v8; v12 = mul v10 v8; ret v0 v12 }
random 5023 -- C func { b0(v0): cbr v0 b2(v0) b3(v0); b1(v1, v2): v3 = const -1; v4 = const -1; ret v1; b2(v5): \
    v6 = read; cbr v0 b5(v5) b4(v0, v5); b3(v7): v8 = add v0 v7; br b3(v0); b4(v9, v10): v11 = div v6 v6; v12 = mul \
    v5 v10; cbr v0 b5(v6) b5(v0); b5(v13): ret } => func { b0(v0): cbr v0 b2(v0) b3(v0); b1(v1, v2): v3 = const -1; \
    v4 = const -1; ret v1; b2(v5): v6 = read; cbr v0 b5(v0) b4(v0, v0); b3(v7): v8 = add v0 v0; br b3(v0); b4(v9, \
    v10): v11 = div v6 v6; v12 = mul v0 v0; cbr v0 b5(v6) b5(v0); b5(v13): ret }
random 5025 -- C func { b0(): v0 = const 2; br b1(v0, v0); b1(v1, v2): scope { b0(v3): v4 = const -1; v5 = const \
    1; v6 = add v2 v3; cbr v1 b2() b2(); b1(v7): sink; v8 = mul v2 v2; ret v0 v2; b2(): v9 = div v3 v4; ret v3 v5 }; \
    ret; b2(v10): v11 = read; br b2(v10); b3(): v12 = read; cbr v12 b4(v12) b4(v12); b4(v13): v14 = div v13 v13; v15 \
    = mul v14 v13; v16 = const 1; ret v13 v15 } => func { b0(): v0 = const 2; br b1(v0, v0); b1(v1, v2): scope { \
    b0(v3): v4 = const -1; v5 = const 1; v6 = add v0 v3; cbr v0 b2() b2(); b1(v7): sink; v8 = mul v0 v0; ret v0 v0; \
    b2(): v9 = div v3 v4; ret v3 v5 }; ret; b2(v10): v11 = read; br b2(v10); b3(): v12 = read; cbr v12 b4(v12) \
    b4(v12); b4(v13): v14 = div v13 v13; v15 = mul v14 v13; v16 = const 1; ret v13 v15 }
random 5026 -- C func { b0(v0): cbr v0 b0(v0) b1(v0, v0); b1(v1, v2): print v2; cbr v2 b3() b2(v2); b2(v3): br \
    b3(); b3(): sink v1; v4 = mul v0 v1; cbr v0 b0(v0) b2(v0) } => func { b0(v0): cbr v0 b0(v0) b1(v0, v0); b1(v1, \
    v2): print v0; cbr v0 b3() b2(v0); b2(v3): br b3(); b3(): sink v0; v4 = mul v0 v0; cbr v0 b0(v0) b2(v0) }
random 5027 -- C func { b0(v0): cbr v0 b3(v0) b1(v0); b1(v1): v2 = add v1 v1; ret; b2(): v3, v4 = pair; v5 = div \
    v3 v3; print v5; br b0(v3); b3(v6): v7 = add v0 v6; cbr v0 b0(v0) b3(v0) } => func { b0(v0): cbr v0 b3(v0) \
    b1(v0); b1(v1): v2 = add v0 v0; ret; b2(): v3, v4 = pair; v5 = div v3 v3; print v5; br b0(v3); b3(v6): v7 = add \
    v0 v0; cbr v0 b0(v0) b3(v0) }
random 5029 -- C func { b0(v0, v1): v2 = const -1; v3 = mul v1 v0; sink v0; br b1(v1, v3); b1(v4, v5): v6 = div \
    v5 v4; sink v0; v7 = div v4 v6; cbr v3 b3(v1, v1) b2(v0); b2(v8): scope v8 { b0(v9): v10 = const -1; v11 = div \
    v8 v3; br b1(v7, v1); b1(v12, v13): v14 = add v11 v12; v15 = const 1; br b1(v12, v9) }; v16 = read; br b3(v0, \
    v7); b3(v17, v18): br b3(v1, v0) } => func { b0(v0, v1): v2 = const -1; v3 = mul v1 v0; sink v0; br b1(v1, v3); \
    b1(v4, v5): v6 = div v3 v1; sink v0; v7 = div v1 v6; cbr v3 b3(v1, v1) b2(v0); b2(v8): scope v0 { b0(v9): v10 = \
    const -1; v11 = div v0 v3; br b1(v7, v1); b1(v12, v13): v14 = add v11 v7; v15 = const 1; br b1(v7, v9) }; v16 = \
    read; br b3(v0, v7); b3(v17, v18): br b3(v1, v0) }
random 5030 -- C func { b0(v0): v1 = div v0 v0; v2 = div v1 v0; v3 = mul v0 v2; br b2(); b1(v4, v5): v6, v7 = \
    pair; v8 = add v6 v5; v9, v10 = pair; cbr v4 b4() b4(); b2(): v11, v12 = pair; cbr v0 b4() b4(); b3(v13, v14): \
    br b4(); b4(): sink v1; ret v11 v0 } => func { b0(v0): v1 = const 1; v2 = div v0 v0; v3 = div v1 v0; v4 = mul v0 \
    v3; br b2(); b1(v5, v6): v7, v8 = pair; v9 = add v7 v6; v10, v11 = pair; cbr v5 b4() b4(); b2(): v12, v13 = \
    pair; cbr v0 b4() b4(); b3(v14, v15): br b4(); b4(): sink v1; ret v12 v0 }
random 5031 -- C func { b0(): v0, v1 = pair; sink; cbr v1 b3(v0) b4(v0); b1(v2): v3 = div v13 v14; ret v0; \
    b2(v4, v5): v6, v7 = pair; br b5(); b3(v8): v9 = mul v8 v8; br b4(v8); b4(v10): v11 = mul v1 v0; br b5(); b5(): \
    v12 = add v1 v0; v13 = mul v10 v1; v14 = mul v11 v1; cbr v12 b1(v0) b5() } => func { b0(): v0, v1 = pair; sink; \
    cbr v1 b3(v0) b4(v0); b1(v2): v3 = div v13 v14; ret v0; b2(v4, v5): v6, v7 = pair; br b5(); b3(v8): v9 = mul v0 \
    v0; br b4(v0); b4(v10): v11 = mul v1 v0; br b5(); b5(): v12 = add v1 v0; v13 = mul v0 v1; v14 = mul v11 v1; cbr \
    v12 b1(v0) b5() }
random 5032 -- C func { b0(v0, v1): v2 = div v1 v1; cbr v0 b3() b3(); b1(v3): ret v3; b2(): v4 = const 0; print \
    v4; cbr v4 b3() b3(); b3(): print v2; ret v0 } => func { b0(v0, v1): v2 = const 1; v3 = div v1 v1; cbr v0 b3() \
    b3(); b1(v4): ret v4; b2(): v5 = const 0; print v5; cbr v5 b3() b3(); b3(): print v2; ret v0 }
random 5037 -- C func { b0(v0, v1): v2 = add v0 v1; cbr v0 b3(v2, v2) b1(v0); b1(v3): v4 = mul v2 v2; ret v2 v3; \
    b2(v5, v6): scope v6 v5 { b0(v7): print v5; ret v5; b1(v8): v9 = const -1; cbr v8 b1(v6) b2(v8, v6); b2(v10, \
    v11): cbr v11 b2(v10, v11) b1(v11) }; cbr v5 b3(v5, v6) b3(v5, v5); b3(v12, v13): v14 = add v2 v13; ret } => \
    func { b0(v0, v1): v2 = add v0 v1; cbr v0 b3(v2, v2) b1(v0); b1(v3): v4 = mul v2 v2; ret v2 v0; b2(v5, v6): \
    scope v6 v5 { b0(v7): print v5; ret v5; b1(v8): v9 = const -1; cbr v8 b1(v6) b2(v8, v6); b2(v10, v11): cbr v11 \
    b2(v10, v11) b1(v11) }; cbr v5 b3(v5, v6) b3(v5, v5); b3(v12, v13): v14 = add v2 v13; ret }
random 5039 -- C func { b0(): v0 = const 1; br b1(); b1(): cbr v0 b2(v0) b1(); b2(v1): v2 = const 0; v3 = div v1 \
    v2; ret } => func { b0(): v0 = const 1; br b1(); b1(): cbr v0 b2(v0) b1(); b2(v1): v2 = const 0; v3 = div v0 v2; \
    ret }";
