//! Texts, and what is left of them. `C` is before one that changes, `U` before one that does not, and before that a
//! name. They were worked out by hand; nine are what tests of MLIR's canonicalization and constant folding ask, in this
//! dialect.

pub static ROWS: &str = "\
a sum of constants, as simple_addi of MLIR's constant-fold.mlir -- C func { b0(): a = const 2; b = const 3; c = add \
    a b; ret c } => func { b0(): v0 = const 2; v1 = const 3; v2 = const 5; v3 = add v0 v1; ret v2 }
a product of constants, as muli there -- C func { b0(): a = const 4; b = const 2; c = \
    mul a b; ret c } => func { b0(): v0 = const 4; v1 = const 2; v2 = const 8; v3 = mul v0 v1; ret v2 }
a quotient of constants, which by 0 stays, as simple_divi_signed there -- C func { b0(): z = const \
    0; a = const 7; b = const 2; c = div a b; d = div a z; ret c d } => func { b0(): v0 = const 0; v1 = \
    const 7; v2 = const 2; v3 = const 3; v4 = div v1 v2; v5 = div v1 v0; ret v3 v5 }
a product with 0 -- C func { b0(x): z = const 0; a = mul x z; ret a } => \
    func { b0(v0): v1 = const 0; v2 = mul v0 v1; ret v1 }
0 on the left, as muli_zero of MLIR's Transforms/canonicalize.mlir -- C func { b0(x): z = const 0; a = mul z x; ret a a } => func { b0(v0): v1 = const 0; v2 \
    = mul v1 v0; ret v1 v1 }
0 on both sides is the left one -- C func { b0(): y = const 0; z = const 0; a = mul y z; ret a } => func \
    { b0(): v0 = const 0; v1 = const 0; v2 = mul v0 v1; ret v0 }
0 divided -- C func { b0(x): z = const 0; a = div z x; ret a } => func \
    { b0(v0): v1 = const 0; v2 = div v1 v0; ret v1 }
a quotient of equal operands, which may trap -- C func { b0(x): a = div x x; ret a } => func { b0(v0): \
    v1 = const 1; v2 = div v0 v0; ret v1 }
0 by itself, which traps -- C func { b0(): z = const 0; a = div z z; ret a } => func { b0(): v0 = const \
    0; v1 = div v0 v0; ret v0 }
sums with 0 and products with 1, which wrap -- U func { b0(x): z = const 0; o = const 1; a = add x z; b \
    = mul a o; c = div b o; ret c } => func { b0(v0): v1 = const 0; v2 = const 1; v3 = add v0 v1; v4 = mul \
    v3 v2; v5 = div v4 v2; ret v5 }
a chain -- C func { b0(x): z = const 0; a = mul x z; b = div a x; c = mul x b; ret c } => func { b0(v0): \
    v1 = const 0; v2 = mul v0 v1; v3 = div v1 v0; v4 = mul v0 v1; ret v1 }
a constant that appears feeds an identity -- C func { b0(x): a = const 1; b = const -1; z = add a b; c = \
    mul x z; ret c } => func { b0(v0): v1 = const 1; v2 = const -1; v3 = const 0; v4 = add v1 v2; v5 = mul \
    v0 v3; ret v3 }
operands that become known -- C func { b0(x): o = const 1; a = div x x; b = add a o; ret b } => func { \
    b0(v0): v1 = const 1; v2 = const 1; v3 = div v0 v0; v4 = const 2; v5 = add v2 v1; ret v4 }
a result without uses -- U func { b0(x): z = const 0; a = mul x z; ret x } => func { b0(v0): v1 = const \
    0; v2 = mul v0 v1; ret v0 }
nothing is known of arguments -- U func { b0(x, y): a = add x y; b = mul a y; c = div b a; ret c } => \
    func { b0(v0, v1): v2 = add v0 v1; v3 = mul v2 v1; v4 = div v3 v2; ret v4 }
in a region, by what is known around it -- C func { b0(x): z = const 0; scope { b0(): a = mul x z; print \
    a; ret }; ret } => func { b0(v0): v1 = const 0; scope { b0(): v2 = mul v0 v1; print v1; ret }; ret }
not reached -- U func { b0(x): ret; b1(): z = const 0; a = mul x z; ret a } => func { b0(v0): ret; b1(): \
    v1 = const 0; v2 = mul v0 v1; ret v2 }
a module without dominance -- C mod { b0(): func { b0(x): z = const 0; a = mul x z; ret a } } => mod { \
    b0(): func { b0(v0): v1 = const 0; v2 = mul v0 v1; ret v1 } }
blocks in another order than dominance -- C func { b0(x): br b2(); b1(): c = div a x; ret c; b2(): z = \
    const 0; a = mul x z; br b1() } => func { b0(v0): br b2(); b1(): v1 = div v2 v0; ret v2; b2(): v2 = \
    const 0; v3 = mul v0 v2; br b1() }
around a loop -- C func { b0(x): z = const 0; br b1(x); b1(i): a = mul i z; r = read; cbr r b1(a) b2(); \
    b2(): ret a } => func { b0(v0): v1 = const 0; br b1(v0); b1(v2): v3 = mul v2 v1; v4 = read; cbr v4 \
    b1(v1) b2(); b2(): ret v1 }
what reads or has two results -- U func { b0(): r = read; l, s = pair; a = add r l; ret a s } => func { \
    b0(): v0 = read; v1, v2 = pair; v3 = add v0 v1; ret v3 v2 }
uses before definitions -- C func { b0(): c = add b a; b = add a a; a = const 2; ret c } => func { b0(): \
    v0 = const 6; v1 = add v2 v4; v2 = const 4; v3 = add v4 v4; v4 = const 2; ret v0 }
an operation that uses itself -- U func { b0(): a = mul a z; z = const 0; ret a } => func { b0(): v0 = \
    mul v0 v1; v1 = const 0; ret v0 }
a branch that forwards a constant, as br_folding of MLIR's ControlFlow/canonicalize.mlir -- C func { b0(): z = const 0; \
    br b1(z); b1(p): ret p } => func { b0(): v0 = const 0; br b1(v0); b1(v1): ret v0 }
two edges that forward one value, as cond_br_same_successor there -- C func { b0(c, x): cbr c b1(x) b1(x); \
    b1(p): ret p } => func { b0(v0, v1): cbr v0 b1(v1) b1(v1); b1(v2): ret v1 }
two edges that forward two values, as cond_br_same_successor_insert_select there -- U func { b0(c, x): cbr c \
    b1(x) b1(c); b1(p): ret p } => func { b0(v0, v1): cbr v0 b1(v1) b1(v0); b1(v2): ret v2 }
through a block to a join, as cond_br_passthrough there -- C func { b0(c, x): cbr c b1(x) b2(); b1(p): br \
    b3(p); b2(): br b3(x); b3(q): ret q } => func { b0(v0, v1): cbr v0 b1(v1) b2(); b1(v2): br b3(v1); b2(): br \
    b3(v1); b3(v3): ret v1 }
a loop that nothing leaves, as the recursively dead arguments of MLIR's canonicalize-dce.mlir -- C func { b0(x): br \
    b1(x); b1(p): br b1(p) } => func { b0(v0): br b1(v0); b1(v1): br b1(v0) }
one of two arguments -- C func { b0(c, x, \
    y): cbr c b2(x, y) b1(); b1(): br b2(x, c); b2(p, q): ret p q } => func { b0(v0, v1, v2): cbr v0 b2(v1, v2) \
    b1(); b1(): br b2(v1, v0); b2(v3, v4): ret v1 v4 }
an argument that is known makes a product known -- C func { b0(x): z = const 0; br b1(z); b1(p): a = mul x \
    p; br b2(a); b2(q): ret q } => func { b0(v0): v1 = const 0; br b1(v1); b1(v2): v3 = mul v0 v1; br b2(v1); \
    b2(v4): ret v1 }
a product that is known makes edges forward one value -- C func { b0(x): z = const 0; cbr x b1() b2(); b1(): \
    a = mul x z; br b3(a); b2(): br b3(z); b3(p): ret p } => func { b0(v0): v1 = const 0; cbr v0 b1() b2(); \
    b1(): v2 = mul v0 v1; br b3(v1); b2(): br b3(v1); b3(v3): ret v1 }
loops in a loop that forward what came -- C func { b0(x): br b1(x); b1(p): br b2(p); b2(q): r = read; cbr r \
    b2(q) b3(); b3(): s = read; cbr s b1(p) b4(); b4(): ret q } => func { b0(v0): br b1(v0); b1(v1): br b2(v0); \
    b2(v2): v3 = read; cbr v3 b2(v0) b3(); b3(): v4 = read; cbr v4 b1(v0) b4(); b4(): ret v0 }
a loop that changes its argument -- U func { b0(x): br b1(x); b1(p): q = add p p; cbr q b1(q) b2(); b2(): \
    ret p } => func { b0(v0): br b1(v0); b1(v1): v2 = add v1 v1; cbr v2 b1(v2) b2(); b2(): ret v1 }
an entry, which a value reaches that does not dominate it -- U func { b0(x): r = read; cbr r b0(r) b1(); \
    b1(): ret x } => func { b0(v0): v1 = read; cbr v1 b0(v1) b1(); b1(): ret v0 }
two arguments that go round -- U func { b0(x): br b1(x, x); b1(p, q): r = read; cbr r b1(q, p) b2(); b2(): \
    ret p } => func { b0(v0): br b1(v0, v0); b1(v1, v2): v3 = read; cbr v3 b1(v2, v1) b2(); b2(): ret v1 }
an edge from what is not reached -- U func { b0(x): br b2(x); b1(): z = const 1; br b2(z); b2(p): ret p } => \
    func { b0(v0): br b2(v0); b1(): v1 = const 1; br b2(v1); b2(v2): ret v2 }
a block that is not reached -- U func { b0(): ret; b1(x): br b2(x); b2(p): ret p } => func { b0(): ret; \
    b1(v0): br b2(v0); b2(v1): ret v1 }
an edge that forwards too few values -- U func { b0(x): cbr x b1(x) b1(); b1(p): ret p } => func { b0(v0): \
    cbr v0 b1(v0) b1(); b1(v1): ret v1 }
an argument without uses -- U func { b0(x): br b1(x); b1(p): ret x } => func { b0(v0): br b1(v0); b1(v1): \
    ret v0 }
an argument that a region uses -- C func { b0(x): br b1(x); b1(p): scope { b0(): print p; ret }; ret } => \
    func { b0(v0): br b1(v0); b1(v1): scope { b0(): print v0; ret }; ret }
an argument in a region that is visited again -- C func { b0(x): br b1(); b1(): scope { b0(): r = read; br \
    b1(r); b1(p): print p; ret }; br b1() } => func { b0(v0): br b1(); b1(): scope { b0(): v1 = read; br b1(v1); \
    b1(v2): print v1; ret }; br b1() }
diamonds in a chain, each behind the one before -- C func { b0(x): z = const 0; br b1(z); b1(p): cbr x \
    b2() b3(); b2(): br b4(z); b3(): a = mul x p; br b4(a); b4(q): cbr x b5() b6(); b5(): br b7(z); \
    b6(): b = mul x q; br b7(b); b7(r): ret r } => func { b0(v0): v1 = const 0; br b1(v1); b1(v2): cbr \
    v0 b2() b3(); b2(): br b4(v1); b3(): v3 = mul v0 v1; br b4(v1); b4(v4): cbr v0 b5() b6(); b5(): br \
    b7(v1); b6(): v5 = mul v0 v1; br b7(v1); b7(v6): ret v1 }
three loops, each in the one before -- C func { b0(x): br b1(x); b1(p): br b2(p); b2(q): br b3(q); \
    b3(r): s = read; cbr s b3(r) b4(); b4(): t = read; cbr t b2(r) b5(); b5(): u = read; cbr u b1(q) \
    b6(); b6(): ret p } => func { b0(v0): br b1(v0); b1(v1): br b2(v0); b2(v2): br b3(v0); b3(v3): v4 = \
    read; cbr v4 b3(v0) b4(); b4(): v5 = read; cbr v5 b2(v0) b5(); b5(): v6 = read; cbr v6 b1(v0) b6(); \
    b6(): ret v0 }
arguments that turn out to be the same value -- C func { b0(x): br b1(x, x); b1(p, q): a = div p q; ret \
    a } => func { b0(v0): br b1(v0, v0); b1(v1, v2): v3 = const 1; v4 = div v0 v0; ret v3 }";
