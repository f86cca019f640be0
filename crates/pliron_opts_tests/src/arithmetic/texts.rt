//! Texts that are read and printed, and texts outside the notation, by its rules in docs/DIALECTS.md.
use crate::expect::{expect_fault, expect_text};
use pliron_core::{Context, Operation, Ptr};
use pliron_dialect_arithmetic::ArithmeticKind;
use pliron_text::{find_fault, print_operation, read_operation};
use std::alloc::Global;
use std::process::Abort;

/// The operation of a text of the notation.
pub fn read(rt: &impl Abort, alloc: Global, ctx: &mut Context, text: &str) -> Ptr<Operation> {
    let read = read_operation::<ArithmeticKind>(alloc, text.as_bytes(), ctx).expect(rt, "memory");
    read.expect(rt, "readable")
}

// What is printed of a text; of one outside the notation it is `none`.
fn printed_in(rt: &impl Abort, alloc: Global, ctx: &mut Context, text: &str) -> String {
    let read = read_operation::<ArithmeticKind>(alloc, text.as_bytes(), ctx).expect(rt, "memory");
    match read {
        Some(root) => print_operation::<ArithmeticKind>(alloc, root, ctx).expect(rt, "memory"),
        None => String::from_str(alloc, "none").expect(rt, "memory"),
    }
}

fn check(rt: &impl Abort, alloc: Global, name: &str, text: &str, printed: &str) {
    let mut ctx = Context::new(alloc);
    let found = printed_in(rt, alloc, &mut ctx, text);
    expect_text(rt, found.as_str(), printed, name);
}

// Names, texts, and what is printed of each.
static READ: &str = "\
an empty function -- function { } => function { }
an empty block -- function { b0(): } => function { b0(): }
two empty blocks -- function { b0(): ; b1(): } => function { b0():; b1(): }
no blanks -- function{b0():return} => function { b0(): return }
many blanks -- \x20 function\t{ a ( x , y ) : return\ty x } => function { b0(v0, v1): return v1 v0 }
one name for a block and a value -- function { x(x): return x } => function { b0(v0): return v0 }
names of letters and digits -- function { a_1B(x9_): return x9_ } => function { b0(v0): return v0 }
a use before its definition -- function { b0(): s = neg t; t = lit 1; return s } => function { b0(): v0 = neg v1; \
    v1 = lit 1; return v0 }
the least and the greatest number -- function { b0(): a = lit -9223372036854775808; b = lit 9223372036854775807; z \
    = lit 0; m = lit -1; return a b z m } => function { b0(): v0 = lit -9223372036854775808; v1 = lit \
    9223372036854775807; v2 = lit 0; v3 = lit -1; return v0 v1 v2 v3 }
each operation on numbers -- function { b0(a, b): s = add a b; p = mul a b; l = less s p; n = neg l; return n } => \
    function { b0(v0, v1): v2 = add v0 v1; v3 = mul v0 v1; v4 = less v2 v3; v5 = neg v4; return v5 }
a branch -- function { b0(c, x): branch c t(x) f(); f(): return; t(y): jump f() } => function { b0(v0, v1): branch \
    v0 b2(v1) b1(); b1(): return; b2(v2): jump b1() }
a jump with too few values -- function { b0(): jump b1(); b1(x): return x } => function { b0(): jump b1(); b1(v0): \
    return v0 }
two empty regions -- function { b0(c): p, q = if c { } { }; return q p } => function { b0(v0): v1, v2 = if v0 { } \
    { }; return v2 v1 }
an if with arguments -- function { b0(c, x): r = if c x { t(y): return y } { f(z): n = neg z; return n }; return r \
    } => function { b0(v0, v1): v2 = if v0 v1 { b0(v3): return v3 } { b0(v4): v5 = neg v4; return v5 }; return v2 }
regions in both regions of an if -- function { b0(c): r = if c { t(): while { w(): return }; return c } { f(): while \
    { }; n = neg c; return n }; return r } => function { b0(v0): v1 = if v0 { b0(): while { b0(): return }; return v0 \
    } { b0(): while { }; v2 = neg v0; return v2 }; return v1 }
a while without values -- function { b(): while { b(): return }; return } => function { b0(): while { b0(): return \
    }; return }
a function in a function -- function { b(): function { b(): x = lit 1; return x }; y = lit 2; return y } => \
    function { b0(): function { b0(): v0 = lit 1; return v0 }; v1 = lit 2; return v1 }
a number at the top -- x = lit 5 => v0 = lit 5
a return at the top -- return => return
a while at the top -- while { } => while { }
an if of its own result at the top -- r = if r { } { b(x): return r } => v0 = if v0 { } { b0(v1): return v0 }
an if at the top of what is inside it -- if x { b(x): return x } { } => if v0 { b0(v0): return v0 } { }
a name of 64 letters -- function { b0(): a23456789012345678901234567890123456789012345678901234567890123x = lit 1; \
    return } => function { b0(): v0 = lit 1; return }";

#[test]
fn read_and_printed(rt: HostRuntime) {
    for line in READ.lines() {
        let (name, row) = line.split_once(" -- ").expect(&rt, "a name");
        let (text, printed) = row.split_once(" => ").expect(&rt, "a case");
        check(&rt, rt.alloc(), name, text, printed);
        check(&rt, rt.alloc(), name, printed, printed);
    }
}

// Names, and texts outside the notation, each by one rule. The first is empty.
static UNREADABLE: &str = "\
nothing --\x20
no braces -- function
no closing brace -- function {
no closing brace behind a block -- function { b0(): return
a return behind the end -- function { b0(): return } return
operations without a block -- function { return }
no colon of a block -- function { b0() return }
no brackets of a block -- function { b0: return }
no closing bracket of a block -- function { b0(x: return x }
no comma between arguments -- function { b0(x y): return x }
a comma behind the last argument -- function { b0(x,): return x }
a semicolon behind the last operation -- function { b0(): return; }
a semicolon before the first operation -- function { b0(): ; return }
no semicolon between operations -- function { b0(): a = lit 1 return a }
no number -- function { b0(): a = lit; return }
0 before a number -- function { b0(): a = lit 01; return }
a sign before 0 -- function { b0(): a = lit -0; return }
a plus sign -- function { b0(): a = lit +1; return }
a blank behind a sign -- function { b0(): a = lit - 1; return }
one above the greatest -- function { b0(): a = lit 9223372036854775808; return }
one below the least -- function { b0(): a = lit -9223372036854775809; return }
an operand behind a number -- function { b0(): a = lit 1 a; return }
a word of no operation -- function { b0(): a = sub a a; return }
one operand of a sum -- function { b0(): a = add b; b = lit 1; return }
two results of a number -- function { b0(): a, b = lit 1; return }
no result of a number -- function { b0(): lit 1; return }
no comma between results -- function { b0(): a b = lit 1; return }
no name before an equals sign -- function { b0(): = lit 1; return }
a return of no value -- function { b0(): return x }
a return of a block -- function { b0(): return b0 }
a jump to no block -- function { b0(): jump b1() }
a jump without brackets -- function { b0(): jump b0 }
a jump without its closing bracket -- function { b0(): jump b0(; return }
a jump without a target -- function { b0(): jump }
one target of a branch -- function { b0(c): branch c b0(c) }
a branch without a condition -- function { b0(c): branch b0(c) b0(c) }
three targets of a branch -- function { b0(c): branch c b0(c) b0(c) b0(c) }
a jump in mid-block -- function { b0(): jump b0(); return }
a jump out of a region -- function { b0(): while { b1(): jump b0() }; return }
a result of a jump -- function { b0(): a = jump b0() }
a result of a return -- function { b0(): a = return }
one name for two results -- function { b0(): a = lit 1; a = lit 2; return }
one name for two blocks -- function { b0(): return; b0(): return }
an argument's name again in a region -- function { b0(a): while a { b0(a): return }; return }
an operation's word as a name -- function { b0(): add = lit 1; return }
an operation's word as a block's name -- function { add(): return }
a digit before a letter -- function { b0(): 1a = lit 1; return }
an underscore before a letter -- function { b0(): _a = lit 1; return }
a dash in a name -- function { b0(): a-b = lit 1; return }
a letter with a mark -- function { b0(): \u{e4} = lit 1; return }
a name of 65 letters -- function { b0(): a234567890123456789012345678901234567890123456789012345678901234x = lit \
    1; return }
a hash -- function { b0(): return # }
one region of an if -- function { b0(): if { }; return }
three regions of an if -- function { b0(): if { } { } { }; return }
two regions of a while -- function { b0(): while { } { }; return }
a while without a region -- function { b0(): while; return }
a region of a number -- function { b0(): a = lit 1 { }; return }
an operand of a function -- function { b0(x): function x { }; return }
a result of a function -- r = function { b0(): return }
a capital in the word of the root -- Function { b0(): return }
a text of another notation -- func { b0(): ret }";

#[test]
fn unreadable_texts(rt: HostRuntime) {
    for line in UNREADABLE.lines() {
        let (name, text) = line.split_once(" -- ").expect(&rt, "a name");
        check(&rt, rt.alloc(), name, text, "none");
    }
}

// Texts outside the notation, and for each after how many bytes and in how many it leaves that, and what was expected
// there.
static FAULTS: &str = "\
{ } => 0 1 a kind of operations
func { } => 5 1 `,` or `=`
function { return } => 11 6 a block, or `}`
function { b0(): return # } => 24 1 a word, a number or one of `{ } ( ) , : ; =`
function { b0(): a = add b; return } => 26 1 the name of a value
function { b0(): a, b = lit 1; return } => 24 3 a kind of operations with two results
function { b0(): a, b, c = lit 1; return } => 27 3 a kind of operations with more results than two
function { b0(): lit 1; return } => 17 3 a kind of operations with no results
function { b0(): a = lit 1; a = lit 2; return } => 28 1 a value's name that the text doesn't define before
function { b0(): return x } => 24 1 the name of a value that the text defines
function { b0(): while { b1(): jump b0() }; return } => 36 2 the name of a block that its region defines
function { b0(): jump b0(); return } => 28 6 a block, since no operation follows one with successors
function { b0(): a = lit 1 { }; return } => 27 1 `;` or `}`
function { b0(): a = lit 1; if a { }; return } => 28 2 an operation that the dialect admits, with so many operands, \
    results and regions
function => 0 8 an operation that the dialect admits, with so many operands, results and regions";

#[test]
fn places_of_faults(rt: HostRuntime) {
    for row in FAULTS.lines() {
        let (text, wanted) = row.split_once(" => ").expect(&rt, "a case");
        expect_fault::<ArithmeticKind>(&rt, rt.alloc(), text, wanted);
    }
    let read = find_fault::<ArithmeticKind>(rt.alloc(), b"function { }").expect(&rt, "memory");
    assert!(&rt; read.is_none(), "a text that is read");
}

// So many regions in one another.
fn nest(rt: &impl Abort, alloc: Global, depth: usize) -> String {
    let mut text = String::new(alloc);
    for _ in 1..depth {
        text.push_str("function { b0(): ").expect(rt, "memory");
    }
    text.push_str("function { }").expect(rt, "memory");
    for _ in 1..depth {
        text.push_str(" }").expect(rt, "memory");
    }
    text
}

#[test]
fn depths(rt: HostRuntime) {
    let alloc = rt.alloc();
    let deepest = nest(&rt, alloc, 64);
    let text = deepest.as_str();
    check(&rt, alloc, "64 regions", text, text);
    let deeper = nest(&rt, alloc, 65);
    check(&rt, alloc, "65 regions", deeper.as_str(), "none");
}
