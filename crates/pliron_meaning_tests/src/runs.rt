//! Runs of texts of the bench notation and of trees of the tiny dialect, whose ends were worked out by hand
//! from the table of moves and the definition of a run.
//!
//! A case is a name, a program, its inputs and the world's answers, and after ` => ` how the run ends, with which
//! values, and with which effects, the latest first. Data are numbers and texts; `a:b` joins two, and `-` is `Empty`.
use pliron_core::{AttrObj, Attrs, Context, Head, IRRewriter, Operation, Ptr, Rewriter, Text};
use pliron_test_cases::bench::Bench;
use pliron_test_cases::cases::{CaseRow, number, read, row_of};
use pliron_test_cases::evaluator::{Datum, Sight, evaluate};
use pliron_test_cases::trees::build;
use pliron_test_cases::{Tiny, TinyKind};
use std::alloc::Global;
use std::process::Abort;

const ENOUGH: usize = 200;

static RUNS: &str = "\
more inputs than arguments -- func { b0(x): ret x } / 4 5 / => ended / 4 /
fewer inputs than arguments -- func { b0(x, y): ret y x } / 3 / => ended / 0 3 /
no operations -- func { b0(x): } / 3 / => ended / /
a module -- mod { b0(): func { b0(): a = read; print a } } / 3 / 8 9 => ended / /
two constants -- func { b0(): a = const -7; b = const 12; ret b a } / / => ended / 12 -7 /
a sum -- func { b0(x, y): z = add x y; ret z } / 20 22 / => ended / 42 /
a sum past the greatest -- func { b0(x, y): z = add x y; ret z } / 9223372036854775807 1 / => ended / \
    -9223372036854775808 /
a sum past the least -- func { b0(x, y): z = add x y; ret z } / -9223372036854775808 -1 / => ended / \
    9223372036854775807 /
a sum of a number above 64 bits -- func { b0(x, y): z = add x y; ret z } / 18446744073709551617 5 / => ended / 6 /
a sum of one above the greatest -- func { b0(x, y): z = add x y; ret z } / 9223372036854775808 0 / => ended / \
    -9223372036854775808 /
a sum of a text -- func { b0(x, y): z = add x y; ret z } / a 5 / => ended / 5 /
a product -- func { b0(x, y): z = mul x y; ret z } / -6 7 / => ended / -42 /
a product above 64 bits -- func { b0(x, y): z = mul x y; ret z } / 4294967296 4294967296 / => ended / 0 /
a product past the greatest -- func { b0(x, y): z = mul x y; ret z } / -1 -9223372036854775808 / => ended / \
    -9223372036854775808 /
a quotient by a negative number -- func { b0(x, y): print x; z = div x y; ret z } / 7 -2 / 8 9 => ended / -3 / \
    print:7
a quotient of a negative number -- func { b0(x, y): print x; z = div x y; ret z } / -7 2 / 8 9 => ended / -3 / \
    print:-7
a quotient by 0 -- func { b0(x, y): print x; z = div x y; ret z } / 5 0 / 8 => trapped / / print:5
a quotient of the least by -1 -- func { b0(x, y): print x; z = div x y; ret z } / -9223372036854775808 -1 / 8 => \
    trapped / / print:-9223372036854775808
two reads -- func { b0(): a = read; b = read; ret b a } / / 8 9 => ended / 9 8 / read read
more reads than answers -- func { b0(): a = read; b = read; ret b a } / / 8 => reached / / read read
two prints -- func { b0(x): print x; y = add x x; print y; ret } / 3 / 8 9 => ended / / print:6 print:3
more effects than answers -- func { b0(): a = read; print a; ret a } / / print:4 => reached / / print:print:4 read
a pair -- func { b0(): l, r = pair; ret r l r } / / => ended / 2 1 2 /
sinks -- func { b0(x): sink x x; sink; ret x } / 6 / => ended / 6 /
a scope with more arguments than operands -- func { b0(x): scope x { b0(p, q): print p; print q; ret p }; ret x } \
    / 4 / 8 9 => ended / 4 / print:0 print:4
a scope that jumps -- func { b0(x, y): scope x y { b0(p): print p; br b1(); b1(): }; ret y } / 4 5 / 8 9 => ended \
    / 5 / print:4
a box, which is not run -- func { b0(x): box { b0(): print x; ret }; ret x } / 2 / 8 9 => ended / 2 /
a jump that swaps its values -- func { b0(x, y): br b1(y, x); b1(p, q): ret p q } / 21 22 / => ended / 22 21 /
a jump with more values than arguments -- func { b0(x): br b1(x); b1(): } / 1 / 8 => trapped / /
a branch on a number above 0 -- func { b0(x): a = const 1; cbr x b1(a) b2(a, x); b1(p): ret p; b2(q, r): ret q r } \
    / 5 / => ended / 1 /
a branch on a number below 0 -- func { b0(x): a = const 1; cbr x b1(a) b2(a, x); b1(p): ret p; b2(q, r): ret q r } \
    / -1 / => ended / 1 /
a branch on 0 -- func { b0(x): a = const 1; cbr x b1(a) b2(a, x); b1(p): ret p; b2(q, r): ret q r } / 0 / => ended \
    / 1 0 /
a branch on a number that is 0 in 64 bits -- func { b0(x): a = const 1; cbr x b1(a) b2(a, x); b1(p): ret p; b2(q, \
    r): ret q r } / 18446744073709551616 / => ended / 1 18446744073709551616 /
a return in a scope -- func { b0(x): scope { b0(): ret x; print x }; ret x x } / 7 / 8 9 => ended / 7 7 /
a fork on a number but 0 -- func { b0(x): fork x b1 b2; b1(p, q): ret p q; b2(r): ret r r r } / 3 / => ended / 3 3 /
a fork on 0 -- func { b0(x): fork x b1 b2; b1(p, q): ret p q; b2(r): ret r r r } / 0 / => ended / 0 0 0 /
a loop that counts down -- func { b0(n): z = const 0; br b1(n, z); b1(i, s): m = const -1; cbr i b2() b3(); b2(): \
    t = add s i; j = add i m; br b1(j, t); b3(): ret s } / 4 / => ended / 10 /";

/// Steps of a tree behind the number of the root.
static TREES: &str = "\
a loop of questions without answers -- 0 / scope; block 0; block 0 1; const 1 @0; br @0 b1 v1; ask @1 v0; br @1 b1 \
    v2 / 4 / => reached / / 1
a loop of questions with two answers -- 0 / scope; block 0; block 0 1; const 1 @0; br @0 b1 v1; ask @1 v0; br @1 \
    b1 v2 / 4 / 5 7 => reached / / 7 5 1
a question in a scope and one behind it -- 0 / scope; block 0; const 3 @0; const 5 @0; scope @0 v0; block 3 1; ask \
    @1 v2; ask @0 v1 / 4 / 9 8 => ended / / 5 3
a question -- 0 / scope; block 0 1; ask @0 v0 / 4 / 0 => ended / / 4
a kind without a meaning -- 0 / scope; block 0 1; ask @0 v0; kind 9 @0 / 4 / 2 => trapped / / 4
a question as the root, without an answer -- 0 / ask / 4 / => reached / / 4
a question as the root -- 0 / ask / 4 / 6 => ended / 6 / 4
an empty block -- 0 / scope; block 0 / 4 / => ended / /
a use of another block's argument -- 0 / scope; block 0; block 0 1; ask @0 v0 / 4 / 2 => trapped / /
a jump as the root -- 1 / scope; block 0; block 0 1; br @0 b1 / 4 / 2 => trapped / /
a jump with too few values -- 0 / scope; block 0; block 0 1; br @0 b1 / 4 / 2 => trapped / /
a scope without blocks -- 0 / scope / 4 / 2 => trapped / /
both, with two operands -- 0 / scope; block 0 2; both @0 v0 v1; block 1 2; block 1 1 1; ask @1 v2; ask @1 v3; ask \
    @2 v4 / 4 5 / 1 2 3 => ended / / - - 5
both, with one operand -- 0 / scope; block 0 1; both @0 v0; block 1 1; block 1 2 1; ask @1 v1; ask @2 v3 / 4 / 1 2 \
    => ended / / - -
both as the root -- 0 / both; block 0 1; block 0 0 1; ask @0 v0 / 4 5 / 1 => ended / / 5
both as the root, with one block -- 0 / both; block 0 1; ask @0 v0 / 4 5 / 1 => trapped / / 5
twice, with two arguments -- 0 / scope; block 0 1; twice @0 v0; block 1 2; ask @1 v1; ask @1 v2 / 4 / 1 2 3 4 => \
    ended / / - 4 - 4
twice, on joined data -- 0 / scope; block 0 1; twice @0 v0; block 1 1; ask @1 v1 / a:b / 1 2 => ended / / a:b a:b
twice, on nothing -- 0 / scope; block 0 1; twice @0 v0; block 1 1; ask @1 v1 / - / 1 2 => ended / / - -
twice, with an answer for one visit -- 0 / scope; block 0 1; twice @0 v0; block 1; ask @1 v0 / 4 / 1 => reached / \
    / 4 4
twice without blocks -- 0 / twice / 4 / => trapped / /";

/// Steps before the bound, and how the loop is seen then: it takes a visit, a constant, a jump, a question,
/// its answer, a jump, a question.
static BOUNDS: &str = "\
three transitions -- 3 => reached / /
six transitions -- 6 => reached / / 1
seven transitions -- 7 => reached / / 8 1";

static LOOP: &str =
    "0 / scope; block 0; block 0 1; const 1 @0; br @0 b1 v1; ask @1 v0; br @1 b1 v2";

fn simple(rt: &impl Abort, alloc: Global, word: &str) -> Datum {
    match word.parse::<i128>() {
        Ok(number) => Datum::Number(number),
        Err(_) if word == "-" => Datum::Empty,
        Err(_) => Datum::Text(Text::new(String::from_str(alloc, word).expect(rt, "memory"))),
    }
}

// The datum of the word.
fn datum(rt: &impl Abort, alloc: Global, word: &str) -> Datum {
    let (rest, last) = word.rsplit_once(':').unwrap_or(("", word));
    let mut datum = simple(rt, alloc, last);
    for first in rest.rsplit(':') {
        if !first.is_empty() {
            datum = Datum::join(alloc, simple(rt, alloc, first), datum).expect(rt, "memory");
        }
    }
    datum
}

fn data(rt: &impl Abort, alloc: Global, words: &str) -> Vec<Datum> {
    let mut data = Vec::new(alloc);
    for word in words.split_ascii_whitespace() {
        data.push(datum(rt, alloc, word)).expect(rt, "memory");
    }
    data
}

// The two last fields of a side, and what is before them.
fn last_fields<'t>(rt: &impl Abort, side: &'t str) -> (&'t str, &'t str, &'t str) {
    let (rest, last) = side.rsplit_once('/').expect(rt, "a last field");
    let (rest, middle) = rest.rsplit_once('/').expect(rt, "a field before the last");
    (rest.trim(), middle, last)
}

// How a run is to end.
fn sight(rt: &impl Abort, alloc: Global, side: &str) -> Sight {
    let (end, values, effects) = last_fields(rt, side);
    let effects = data(rt, alloc, effects);
    match end {
        "ended" => Sight::Ended(data(rt, alloc, values), effects),
        "trapped" => Sight::Trapped(effects),
        "reached" => Sight::Reached(effects),
        _ => panic!(rt; "no end: {side}"),
    }
}

fn check_sight(rt: &impl Abort, name: &str, seen: &Sight, want: &Sight) {
    assert!(rt; *seen == *want, "{name}: {seen:?}");
}

fn text_in(rt: &impl Abort, alloc: Global, ctx: &mut Context, asked: &str) -> Sight {
    let (text, inputs, world) = last_fields(rt, asked);
    let root = read(alloc, ctx, text).expect(rt, "a text");
    let inputs = data(rt, alloc, inputs);
    let world = data(rt, alloc, world);
    evaluate::<Bench>(alloc, ctx, root, inputs, world, ENOUGH).expect(rt, "memory")
}

// What is seen of the run of the tree.
fn sight_of_run(
    rt: &impl Abort,
    alloc: Global,
    ctx: &Context,
    root: Ptr<Operation>,
    asked: (&str, &str),
    fuel: usize,
) -> Sight {
    let inputs = data(rt, alloc, asked.0);
    let world = data(rt, alloc, asked.1);
    evaluate::<Tiny>(alloc, ctx, root, inputs, world, fuel).expect(rt, "memory")
}

fn tree_in(rt: &impl Abort, alloc: Global, ctx: &mut Context, asked: &str) -> Sight {
    let (steps, inputs, world) = last_fields(rt, asked);
    let root = build(alloc, ctx, steps).expect(rt, "a tree");
    sight_of_run(rt, alloc, ctx, root, (inputs, world), ENOUGH)
}

fn bound_in(rt: &impl Abort, alloc: Global, ctx: &mut Context, fuel: &str) -> Sight {
    let root = build(alloc, ctx, LOOP).expect(rt, "a tree");
    let fuel = number(fuel).expect(rt, "a number");
    sight_of_run(rt, alloc, ctx, root, ("", "8 8 8"), fuel)
}

/// What the cases of a table are.
#[derive(Clone, Copy)]
enum Subject {
    Text,
    Tree,
    Bound,
}

fn check_row(rt: &impl Abort, alloc: Global, ctx: &mut Context, subject: Subject, row: &CaseRow) {
    let seen = match subject {
        Subject::Text => text_in(rt, alloc, ctx, row.asked),
        Subject::Tree => tree_in(rt, alloc, ctx, row.asked),
        Subject::Bound => bound_in(rt, alloc, ctx, row.asked),
    };
    check_sight(rt, row.name, &seen, &sight(rt, alloc, row.want));
}

fn check_table(rt: &impl Abort, alloc: Global, ctx: &mut Context, subject: Subject, table: &str) {
    for line in table.lines() {
        let row = row_of(line).expect(rt, "a case");
        check_row(rt, alloc, ctx, subject, &row);
    }
}

// A root that was erased traps.
fn roots_in(rt: &impl Abort, alloc: Global, ctx: &mut Context) {
    let root = build(alloc, ctx, "0 / ask").expect(rt, "a tree");
    assert!(rt; root.is_live(ctx));
    assert!(rt; root.is_self_contained(ctx));
    IRRewriter::new().erase_operation(ctx, root);
    let seen = sight_of_run(rt, alloc, ctx, root, ("4", "2"), ENOUGH);
    check_sight(
        rt,
        "an erased root",
        &seen,
        &Sight::Trapped(Vec::new(alloc)),
    );
}

// An operation of no kind traps.
fn outside_in(rt: &impl Abort, alloc: Global, ctx: &mut Context) {
    let root = build(alloc, ctx, "0 / kind 16").expect(rt, "a tree");
    let (inputs, world) = (Vec::new(alloc), Vec::new(alloc));
    let seen = evaluate::<Bench>(alloc, ctx, root, inputs, world, ENOUGH).expect(rt, "memory");
    check_sight(rt, "no kind", &seen, &Sight::Trapped(Vec::new(alloc)));
}

// The head of a constant that is a text.
fn text_head(rt: &impl Abort, alloc: Global) -> Head {
    let text = String::from_str(alloc, "ab").expect(rt, "memory");
    let attrs = Vec::from_array(alloc, [AttrObj::Text(Text::new(text))]).expect(rt, "memory");
    Head {
        kind: TinyKind::Const.number(),
        ssa: true,
        attrs: Attrs::new(attrs),
    }
}

// A constant's text is given as it is.
fn constant_in(rt: &impl Abort, alloc: Global, ctx: &mut Context) {
    let root = Operation::create(ctx, text_head(rt, alloc), 1, 0).expect(rt, "memory");
    let seen = sight_of_run(rt, alloc, ctx, root, ("", ""), ENOUGH);
    check_sight(rt, "a text", &seen, &sight(rt, alloc, "ended / ab /"));
}

fn all_in(rt: &impl Abort, alloc: Global, ctx: &mut Context) {
    check_table(rt, alloc, ctx, Subject::Text, RUNS);
    check_table(rt, alloc, ctx, Subject::Tree, TREES);
    check_table(rt, alloc, ctx, Subject::Bound, BOUNDS);
    outside_in(rt, alloc, ctx);
    roots_in(rt, alloc, ctx);
    constant_in(rt, alloc, ctx);
}

#[test]
fn runs_of_texts_and_trees(rt: HostRuntime) {
    let alloc = rt.alloc();
    let mut ctx = Context::new(alloc);
    all_in(&rt, alloc, &mut ctx)
}
