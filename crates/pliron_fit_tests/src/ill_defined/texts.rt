//! Malformed texts, one a line behind its name.
use std::process::Abort;

pub static TEXTS: &str = "\
a use before its definition -- func { b0(x): a = add b x; b = const 7; c = mul b a; print c; ret a }
uses of themselves, with no way out -- func { b0(): a = add a a; z = const 0; m = mul m z; d = div d m; br b0() }
definitions round a loop that dominate nothing -- func { b0(x): cbr x b1() b2(); b1(): v = const 7; w = add u v; \
    br b2(); b2(): u = mul v w; cbr u b1() b2() }
the entry as a target, with too few values and too many -- func { b0(x, y): s = add x y; cbr s b0(s) b0(x, y, s) }
edges without values -- func { b0(x): cbr x b1() b1(x, x); b1(p): br b2(p, p, p); b2(q, r): print r; br b1() }
uses across regions in both directions -- func { b0(): box { b0(y): k = const 4; box { b0(): l = add k m } }; box \
    { b0(): m = add l y; print k }; ret m }
a value of the operation that takes it -- func { b0(): scope a { b0(p): a = add p p; q = const 1; ret q }; scope q \
    { b0(): ret a }; ret p }
regions without blocks -- func { b0(): box { }; scope n { b0(n): box { }; box { \
    b0(): box { } }; ret n }; print n }
blocks without operations -- mod { b0(): mod { }; b1(): mod { b0():; b1(): func { b0(): } } }
blocks that nothing ends -- func { b0(): print v; b1():; b2(): v = const 1; b3(): w = add v v; sink w v }
a terminator in mid-block -- func { b0(x): ret x; y = read; ret y z; z = const 3; print z; br b1(y); b1(p): ret; q \
    = div x z; ret q }
a reached use of what is not reached -- func { b0(x): print a; ret; b1(): a = add b a; br b2(); b2(): b = add a x; \
    br b1() }
unreachable blocks that lead to one another and out -- func { b0(x): br b3(x); b1(p): q = add p q; br b2(q, q); \
    b2(r): br b1(r); b3(s): cbr s b3() b3(s) }
branches that cannot be followed by values -- func { b0(): l, r = pair; sink l r l; fork r b1 b0; b1(p, q): sink p \
    q l; t = add r q; cbr t b1(l) b1(l, r, t) }
modules and scopes within one another -- mod { b0(): mod { b0(): func { b0(x): scope x { b0(y): scope y { b0(z): \
    print x; ret z }; br b1(z); b1(): ret z }; ret } }; func { b0(): ret }; b1(): func { b0(): br b0() } }
folds of what is never reached and of itself -- func { b0(): c = const 0; d = div d c; e = mul e c; f = add e e; \
    cbr f b1(f) b1(d); b1(p): g = div p f; br b1(g); b2(h): i = add c c; br b1(i) }
arguments that go round a chain of pairs -- func { b0(): br b1(p, q); b1(p, q): br b2(q, p); b2(r, s): br b3(s, \
    r); b3(t, u): print t; br b4(); b4(v): ret p u v }
a value of an unreachable block two regions away -- func { b0(x): scope x { b0(): br b2(); b1(v): box { b0(): w = \
    const 3 }; br b2(); b2(): print w; ret v }; cbr w b1() b2(); b1(): br b2(); b2(): ret w }";

/// The name and the text of a case.
pub fn name_and_text<'t>(rt: &impl Abort, case: &'t str) -> (&'t str, &'t str) {
    case.split_once(" -- ").expect(rt, "a name")
}

/// So many operations with regions have all texts together, counted by hand.
pub const HOLDERS: usize = 39;

/// So many blocks have all texts together, counted by hand.
pub const BLOCKS: usize = 63;

/// More operations with regions, and more blocks, than any one text has.
pub const MOST: usize = 20;
