//! Texts and the lines that they are printed as.
use super::check_printed;
use pliron_test_cases::cases::{CaseRow, row_of};

/// Blanks, ends of lines as `|`, and names.
static LAYOUTS: &str = "\
blanks only where words meet -- mod{b0():func{b0(x):ret x};func{b0():ret}} => mod { b0(): func { b0(v0): ret v0 }; \
    func { b0(): ret } }
an operation behind a return -- func { b0(): ret; a = const 1 } => func { b0(): ret; v0 = const 1 }
an empty module -- mod { } => mod { }
two empty blocks -- mod{b0():;b1():} => mod { b0():; b1(): }
tabs, returns and ends of lines -- func\t{\r| b0(): box { } ; box { b0(): } }| => func { b0(): box { }; box { \
    b0(): } }
names that several functions have -- mod { b0(): mod { }; func { x(y): z = add y y; br x(z) }; func { x(): a = \
    read; print a } } => mod { b0(): mod { }; func { b0(v0): v1 = add v0 v0; br b0(v1) }; func { b0(): v0 = read; \
    print v0 } }
sums over several lines -- func {|  entry():|    five = const 5;|    ten = add five five;|    fifteen = add ten \
    five;|    unused = add fifteen fifteen;|    ret fifteen ten|}| => func { b0(): v0 = const 5; v1 = add v0 v0; \
    v2 = add v1 v0; v3 = add v2 v2; ret v2 v1 }
a sum that wraps, over several lines -- func {|  entry():|    most = const 9223372036854775807;|    one = const \
    1;|    least = add most one;|    ret least|}| => func { b0(): v0 = const 9223372036854775807; v1 = const 1; v2 \
    = add v0 v1; ret v2 }
names that blocks and values have -- func { d(a, b): br c(b, a); c(d, c): box { d(e): sink e a }; ret c } => func \
    { b0(v0, v1): br b1(v1, v0); b1(v2, v3): box { b0(v4): sink v4 v0 }; ret v3 }";

/// Operations of all kinds.
static KINDS: &str = "\
a sum -- func { b0(): a = const 1; b = const 2; c = add a b; ret c } => func { b0(): v0 = const 1; v1 = const 2; \
    v2 = add v0 v1; ret v2 }
sums of sums -- func { b0(): a = const 5; b = add a a; c = add b a; ret c b } => func { b0(): v0 = const 5; v1 = \
    add v0 v0; v2 = add v1 v0; ret v2 v1 }
a quotient by 0 -- func { b0(): a = const 1; z = const 0; d = div a z; ret a } => func { b0(): v0 = const 1; v1 = \
    const 0; v2 = div v0 v1; ret v0 }
the greatest number -- func { b0(): a = const 9223372036854775807; b = const 1; c = add a b; ret c } => func { \
    b0(): v0 = const 9223372036854775807; v1 = const 1; v2 = add v0 v1; ret v2 }
the least number -- func { b0(): a = const -9223372036854775808; b = const -1; d = div a b; ret d } => func { \
    b0(): v0 = const -9223372036854775808; v1 = const -1; v2 = div v0 v1; ret v2 }
a negative divisor -- func { b0(): a = const 7; b = const -2; d = div a b; ret d } => func { b0(): v0 = const 7; \
    v1 = const -2; v2 = div v0 v1; ret v2 }
a product with 0 -- func { b0(x): z = const 0; m = mul x z; ret m } => func { b0(v0): v1 = const 0; v2 = mul v0 \
    v1; ret v2 }
an unused constant -- func { b0(): l = const 7; d = const 0; ret l } => func { b0(): v0 = const 7; v1 = const 0; \
    ret v0 }
a read -- func { b0(x): r = read; ret r } => func { b0(v0): v1 = read; ret v1 }
a pair and a sink -- func { b0(): l, r = pair; sink l l r r; br b1(l, r); b1(a, b): k = const 99; ret k } => func \
    { b0(): v0, v1 = pair; sink v0 v0 v1 v1; br b1(v0, v1); b1(v2, v3): v4 = const 99; ret v4 }
uses before definitions -- func { b0(): c = add a b; a = const 1; b = const 2; ret c } => func { b0(): v0 = add v1 \
    v2; v1 = const 1; v2 = const 2; ret v0 }
a sum of itself -- func { b0(): a = add a a; ret } => func { b0(): v0 = add v0 v0; ret }
a sink of nothing -- func { b0(): a = const 0; sink; ret } => func { b0(): v0 = const 0; sink; ret }";

/// Jumps.
static JUMPS: &str = "\
an unused argument -- func { b0(): x = const 1; br b1(x); b1(a): c = const 7; ret c } => func { b0(): v0 = const \
    1; br b1(v0); b1(v1): v2 = const 7; ret v2 }
a used argument -- func { b0(): x = const 1; br b1(x); b1(a): ret a } => func { b0(): v0 = const 1; br b1(v0); \
    b1(v1): ret v1 }
two arguments -- func { b0(): a = const 1; b = const 2; br b1(a, b); b1(p, q): ret p q } => func { b0(): v0 = \
    const 1; v1 = const 2; br b1(v0, v1); b1(v2, v3): ret v2 v3 }
one value for two arguments -- func { b0(): x = const 1; br b1(x, x); b1(a, b): sink a a b; ret } => func { b0(): \
    v0 = const 1; br b1(v0, v0); b1(v1, v2): sink v1 v1 v2; ret }
a use of an unreachable value -- func { b0(): ret v; b1(): v = const 1; br b1() } => func { b0(): ret v0; b1(): v0 \
    = const 1; br b1() }
an argument forwarded to itself, and used -- func { b0(): br b1(p); b1(p): ret p } => func { b0(): br b1(v0); \
    b1(v0): ret v0 }
an argument forwarded to itself -- func { b0(): br b1(p); b1(p): ret } => func { b0(): br b1(v0); b1(v0): ret }
too few values -- func { b0(): br b1(); b1(p): ret p } => func { b0(): br b1(); b1(v0): ret v0 }
unreachable blocks in a ring -- func { b0(): ret; b1(): a = const 1; br b2(); b2(): print a; br b1() } => func { \
    b0(): ret; b1(): v0 = const 1; br b2(); b2(): print v0; br b1() }
a fork to one block -- func { b0(x): fork x b1 b1; b1(p): ret } => func { b0(v0): fork v0 b1 b1; b1(v1): ret }
a fork to the entry -- func { b0(): ret; b1(x): fork x b2 b0; b2(): } => func { b0(): ret; b1(v0): fork v0 b2 b0; \
    b2(): }";

/// Branches.
static BRANCHES: &str = "\
a join behind a branch -- func { b0(): c = const 1; x = const 5; cbr c b1(x) b2(); b1(p): br b3(p); b2(): y = \
    const 6; br b3(y); b3(q): ret q } => func { b0(): v0 = const 1; v1 = const 5; cbr v0 b1(v1) b2(); b1(v2): br \
    b3(v2); b2(): v3 = const 6; br b3(v3); b3(v4): ret v4 }
a loop round its argument -- func { b0(): z = const 0; br b1(z); b1(i): r = read; cbr r b1(i) b2(); b2(): ret i } \
    => func { b0(): v0 = const 0; br b1(v0); b1(v1): v2 = read; cbr v2 b1(v1) b2(); b2(): ret v1 }
a loop round an unused argument -- func { b0(): z = const 0; br b1(z); b1(i): r = read; cbr r b1(i) b2(); b2(): \
    ret } => func { b0(): v0 = const 0; br b1(v0); b1(v1): v2 = read; cbr v2 b1(v1) b2(); b2(): ret }
a branch and a fork to one block -- func { b0(x): c = const 3; cbr x b1(c) b2(); b1(p): ret p; b2(): fork x b1 b1 \
    } => func { b0(v0): v1 = const 3; cbr v0 b1(v1) b2(); b1(v2): ret v2; b2(): fork v0 b1 b1 }
both edges to one block, with 1 -- func { b0(): c = const 1; d = const 2; cbr c b1(c) b1(d); b1(p): ret p } => \
    func { b0(): v0 = const 1; v1 = const 2; cbr v0 b1(v0) b1(v1); b1(v2): ret v2 }
both edges to one block, with 0 -- func { b0(): c = const 0; d = const 2; cbr c b1(c) b1(d); b1(p): ret p } => \
    func { b0(): v0 = const 0; v1 = const 2; cbr v0 b1(v0) b1(v1); b1(v2): ret v2 }
an unreachable block that jumps to a join -- func { b0(): c = const 1; x = const 5; y = const 6; cbr c b1(x) \
    b2(y); b1(p): br b2(p); b2(q): ret q; b3(): br b2(y) } => func { b0(): v0 = const 1; v1 = const 5; v2 = const \
    6; cbr v0 b1(v1) b2(v2); b1(v3): br b2(v3); b2(v4): ret v4; b3(): br b2(v2) }
edges that forward nothing -- func { b0(): c = const 0; cbr c b1() b2(); b1(): ret; b2(): ret } => func { b0(): v0 \
    = const 0; cbr v0 b1() b2(); b1(): ret; b2(): ret }
edges that forward too few values -- func { b0(): c = const 1; d = const 2; cbr c b1() b1(); b1(p): ret p } => \
    func { b0(): v0 = const 1; v1 = const 2; cbr v0 b1() b1(); b1(v2): ret v2 }
one value along both edges -- func { b0(x): cbr x b1(x) b1(x); b1(p): ret } => func { b0(v0): cbr v0 b1(v0) \
    b1(v0); b1(v1): ret }
a value of one edge used behind both -- func { b0(): c = const 0; cbr c b1() b2(); b1(): v = const 1; br b2(); \
    b2(): print v; ret } => func { b0(): v0 = const 0; cbr v0 b1() b2(); b1(): v1 = const 1; br b2(); b2(): print \
    v1; ret }
an argument as the condition -- func { b0(): a = const 1; br b1(a); b1(p): cbr p b2() b3(); b2(): ret p; b3(): ret \
    } => func { b0(): v0 = const 1; br b1(v0); b1(v1): cbr v1 b2() b3(); b2(): ret v1; b3(): ret }
nothing along one edge and two values along the other -- func { b0(x, y): cbr x b1() b1(y, x); b1(p, q): } => func \
    { b0(v0, v1): cbr v0 b1() b1(v1, v0); b1(v2, v3): }";

/// Regions in one another.
static REGIONS: &str = "\
a use in a box of a value outside -- func { b0(): k = const 4; box { b0(): sink k }; ret } => func { b0(): v0 = \
    const 4; box { b0(): sink v0 }; ret }
a use of a value of a box -- func { b0(): box { b0(): k = const 4 }; print k; ret } => func { b0(): box { b0(): v0 \
    = const 4 }; print v0; ret }
a scope with an argument -- func { b0(): a = const 2; scope a { b0(p): print p; ret }; ret a } => func { b0(): v0 \
    = const 2; scope v0 { b0(v1): print v1; ret }; ret v0 }
a sum in a scope -- func { b0(): a = const 2; scope { b0(): b = add a a; print b; ret }; ret } => func { b0(): v0 \
    = const 2; scope { b0(): v1 = add v0 v0; print v1; ret }; ret }
operations behind a scope -- func { b0(): a = const 2; scope a { b0(p): print p; ret }; m = mul a a; d = div m a; \
    ret d } => func { b0(): v0 = const 2; scope v0 { b0(v1): print v1; ret }; v2 = mul v0 v0; v3 = div v2 v0; ret \
    v3 }
a scope with more arguments than operands -- func { b0(): a = const 2; scope a { b0(p, q): print q; ret p }; ret } \
    => func { b0(): v0 = const 2; scope v0 { b0(v1, v2): print v2; ret v1 }; ret }
a use in a scope of an unreachable value -- func { b0(): br b2(); b1(): v = const 1; br b2(); b2(): scope { b0(): \
    print v; ret }; ret } => func { b0(): br b2(); b1(): v0 = const 1; br b2(); b2(): scope { b0(): print v0; ret \
    }; ret }
a box before a branch -- func { b0(): z = const 0; c = add z z; box { }; cbr c b1() b2(); b1(): ret; b2(): ret } \
    => func { b0(): v0 = const 0; v1 = add v0 v0; box { }; cbr v1 b1() b2(); b1(): ret; b2(): ret }
a scope in a loop -- func { b0(): z = const 0; br b1(z); b1(i): scope i { b0(p): print p; ret }; o = const 1; n = \
    add i o; r = read; cbr r b1(n) b2(); b2(): ret } => func { b0(): v0 = const 0; br b1(v0); b1(v1): scope v1 { \
    b0(v2): print v2; ret }; v3 = const 1; v4 = add v1 v3; v5 = read; cbr v5 b1(v4) b2(); b2(): ret }
a loop in a scope -- func { b0(): a = const 2; scope a { b0(p): r = read; k = const 3; cbr r b0(k) b1(); b1(): ret \
    }; ret } => func { b0(): v0 = const 2; scope v0 { b0(v1): v2 = read; v3 = const 3; cbr v2 b0(v3) b1(); b1(): \
    ret }; ret }
a function in a module -- mod { b0(): func { b0(): a = const 1; b = add a a; ret b } } => mod { b0(): func { b0(): \
    v0 = const 1; v1 = add v0 v0; ret v1 } }
functions in two blocks of a module -- mod { b0(): func { b0(): br b1(); b1(): ret }; b1(): func { b0(): br b1(); \
    b1(): ret } } => mod { b0(): func { b0(): br b1(); b1(): ret }; b1(): func { b0(): br b1(); b1(): ret } }
names of blocks again in a scope -- func { a(): br c(); c(): scope { a(): br c(); c(): ret }; br a() } => func { \
    b0(): br b1(); b1(): scope { b0(): br b1(); b1(): ret }; br b0() }
names of blocks again in boxes -- func { a(): box { a(): br c(); c(): box { c(): br c() }; br a() }; br c(); c(): \
    ret } => func { b0(): box { b0(): br b1(); b1(): box { b0(): br b0() }; br b0() }; br b1(); b1(): ret }
names of blocks and values in boxes side by side -- func { a(): box { c(): box { a(): br a() }; fork x a c; a(x): \
    br c() }; box { a(): br a() }; br c(); c(): br a() } => func { b0(): box { b0(): box { b0(): br b0() }; fork \
    v0 b1 b0; b1(v0): br b0() }; box { b0(): br b0() }; br b1(); b1(): br b0() }
names of values in several functions -- mod { b0(): func { b0(): y = add x x; x = read; box { b0(): x0 = add x y \
    }; print x0 }; func { b0(y): x = read; print x; print y } } => mod { b0(): func { b0(): v0 = add v1 v1; v1 = \
    read; box { b0(): v2 = add v1 v0 }; print v2 }; func { b0(v0): v1 = read; print v1; print v0 } }";

/// Names with one hash in the reader's table of words, more than it has slots for.
static CROWDED: &str = "\
twenty names with one hash -- func { b0(): ast = read; cjf = read; crr = read; fgi = read; fhx = read; gam = read; \
    gjt = read; khk = read; ler = read; mmf = read; mwd = read; ncr = read; nwh = read; oce = read; pfv = read; \
    pow = read; swt = read; vtk = read; xcw = read; xwu = read; sink xwu xcw vtk swt pow pfv oce nwh ncr mwd mmf \
    ler khk gjt gam fhx fgi crr cjf ast; sink ast cjf crr fgi fhx gam gjt khk ler mmf mwd ncr nwh oce pfv pow swt \
    vtk xcw xwu } => func { b0(): v0 = read; v1 = read; v2 = read; v3 = read; v4 = read; v5 = read; v6 = read; v7 \
    = read; v8 = read; v9 = read; v10 = read; v11 = read; v12 = read; v13 = read; v14 = read; v15 = read; v16 = \
    read; v17 = read; v18 = read; v19 = read; sink v19 v18 v17 v16 v15 v14 v13 v12 v11 v10 v9 v8 v7 v6 v5 v4 v3 v2 \
    v1 v0; sink v0 v1 v2 v3 v4 v5 v6 v7 v8 v9 v10 v11 v12 v13 v14 v15 v16 v17 v18 v19 }";

/// Lines that are printed as they are.
static PRINTED: &str = "\
a return -- func { b0(): ret }
a block that jumps to itself -- func { b0(): br b0() }
a jump -- func { b0(): br b1(); b1(): ret }
a jump to a block that jumps to itself -- func { b0(): br b1(); b1(): br b1() }
two blocks in a ring -- func { b0(): br b1(); b1(): br b2(); b2(): br b1() }
an unused constant -- func { b0(): v0 = const 0; ret }
a returned constant -- func { b0(): v0 = const 1; ret v0 }
a constant in the second block -- func { b0(): br b1(); b1(): v0 = const 99; ret v0 }
an argument and a constant -- func { b0(v0): v1 = const 0; ret v1 }
both edges to one block -- func { b0(v0): cbr v0 b1() b1(); b1(): ret }
a constant condition -- func { b0(): v0 = const 1; cbr v0 b1() b2(); b1(): ret v0; b2(): ret }
a constant before a sum -- func { b0(): v0 = const 1; v1 = const 2; v2 = const 3; v3 = add v0 v1; ret v2 }
three constants before a sum -- func { b0(): v0 = const 1; v1 = const 2; v2 = const 3; v3 = const 3; v4 = const 3; \
    v5 = add v0 v1; ret v2 }
uses before definitions -- func { b0(): v0 = const 3; v1 = add v2 v3; v2 = const 1; v3 = const 2; ret v0 }
constants before sums of sums -- func { b0(): v0 = const 5; v1 = const 10; v2 = add v0 v0; v3 = const 15; v4 = add \
    v1 v0; ret v3 v1 }
the greatest and the least number -- func { b0(): v0 = const 9223372036854775807; v1 = const 1; v2 = const \
    -9223372036854775808; v3 = add v0 v1; ret v2 }
negative numbers -- func { b0(): v0 = const 7; v1 = const -2; v2 = const -3; v3 = div v0 v1; ret v2 }
constants for two arguments -- func { b0(): v0 = const 1; v1 = const 2; br b1(v0, v1); b1(v2, v3): v4 = const 2; \
    v5 = const 1; ret v5 v4 }
a constant for the argument of a loop -- func { b0(): v0 = const 0; br b1(v0); b1(v1): v2 = const 0; v3 = read; \
    cbr v3 b1(v2) b2(); b2(): ret v2 }
an unreachable block -- func { b0(): v0 = const 0; br b2(); b1(): v1 = const 1; br b2(); b2(): print v1; ret }
constants for arguments of two blocks -- func { b0(): v0 = const 1; v1 = const 5; v2 = const 6; cbr v0 b1(v1) \
    b2(v2); b1(v3): v4 = const 5; br b2(v4); b2(v5): v6 = const 5; ret v6; b3(): br b2(v2) }
a constant in a scope -- func { b0(): v0 = const 2; scope { b0(): v1 = const 4; v2 = add v0 v0; print v1; ret }; \
    ret }
a constant for the argument of a scope -- func { b0(): v0 = const 2; scope v0 { b0(v1): v2 = const 2; print v2; \
    ret }; ret v0 }
a constant for the first argument of a scope -- func { b0(): v0 = const 2; scope v0 { b0(v1, v2): v3 = const 2; \
    print v2; ret v3 }; ret }
a function in a module -- mod { b0(): func { b0(): v0 = const 1; v1 = const 2; v2 = add v0 v0; ret v1 } }
functions in two blocks, one with a jump -- mod { b0(): func { b0(): ret }; b1(): func { b0(): br b1(); b1(): ret \
    } }
functions in two blocks -- mod { b0(): func { b0(): ret }; b1(): func { b0(): ret } }";

// Each text is printed as its line, and this once more in the same way.
#[test]
fn texts_and_their_lines(rt: HostRuntime) {
    let alloc = rt.alloc();
    for table in [LAYOUTS, KINDS, JUMPS, BRANCHES, REGIONS, CROWDED] {
        for case in table.lines() {
            let CaseRow { name, asked, want } = row_of(case).expect(&rt, "a case");
            check_printed(&rt, alloc, name, asked, want);
            check_printed(&rt, alloc, name, want, want);
        }
    }
}

#[test]
fn printed_lines(rt: HostRuntime) {
    for case in PRINTED.lines() {
        let (name, line) = case.split_once(" -- ").expect(&rt, "a name");
        check_printed(&rt, rt.alloc(), name, line, line);
    }
}
