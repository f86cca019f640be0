//! The program on texts, arguments and failing streams.
use crate::expect::{expect_bytes, expect_text};
use crate::streams::{Input, Output};
use pliron_driver::{OptError, plir_run};
use std::alloc::Global;
use std::process::Abort;

/// What the program is run on. The `failing_read`th read or the `failing_write`th write fails, counted
/// from 1.
#[derive(Drop)]
pub struct Case<'t> {
    /// What a failure prints.
    pub name: &'t str,
    pub args: &'t [&'t str],
    pub text: &'t [u8],
    pub failing_read: u32,
    pub failing_write: u32,
}

/// The bytes of the text, in which `|` stands for the end of a line.
pub fn with_lines(rt: &impl Abort, alloc: Global, text: &str) -> Vec<u8> {
    let mut bytes = Vec::new(alloc);
    for byte in text.as_bytes() {
        bytes
            .push(if *byte == b'|' { b'\n' } else { *byte })
            .expect(rt, "memory");
    }
    bytes
}

/// The words as owned ones.
pub fn owned(rt: &impl Abort, alloc: Global, words: &[&str]) -> Vec<String> {
    let mut all = Vec::new(alloc);
    for word in words {
        all.push(String::from_str(alloc, word).expect(rt, "memory"))
            .expect(rt, "memory");
    }
    all
}

fn check_bytes(rt: &impl Abort, alloc: Global, got: &[u8], want: &str, name: &str) {
    let want = with_lines(rt, alloc, want);
    expect_bytes(rt, got, want.as_slice(), name);
}

/// The program ends with this status, and has written these texts to the output and to the errors.
pub fn expect_run(
    rt: &impl Abort,
    alloc: Global,
    case: &Case<'_>,
    status: u8,
    written: &str,
    reported: &str,
) {
    let args = owned(rt, alloc, case.args);
    let mut input = Input::new(case.text, case.failing_read);
    let mut output = Output::new(alloc, case.failing_write);
    let mut errors = Output::new(alloc, 0);
    let got = plir_run(alloc, &args, &mut input, &mut output, &mut errors);
    let name = case.name;
    assert!(rt; got == status, "{name}");
    check_bytes(rt, alloc, output.text(), written, name);
    check_bytes(rt, alloc, errors.text(), reported, name);
}

fn propagation<'t>(name: &'t str, text: &'t [u8]) -> Case<'t> {
    Case {
        name,
        args: &["sccp"],
        text,
        failing_read: 0,
        failing_write: 0,
    }
}

/// A row of a table of lists of passes: a line `NAME -- LIST :: TEXT => WRITTEN`.
#[derive(Clone, Copy)]
struct ListRow<'t> {
    name: &'t str,
    list: &'t str,
    text: &'t str,
    written: &'t str,
}

fn list_row_of<'t>(rt: &impl Abort, line: &'t str) -> ListRow<'t> {
    let (name, row) = line.split_once(" -- ").expect(rt, "a name");
    let (list, row) = row.split_once(" :: ").expect(rt, "a list");
    let (text, written) = row.split_once(" => ").expect(rt, "a case");
    ListRow {
        name,
        list,
        text,
        written,
    }
}

fn expect_list(rt: &impl Abort, alloc: Global, line: &str) {
    let row = list_row_of(rt, line);
    let case = Case {
        name: row.name,
        args: &[row.list],
        text: row.text.as_bytes(),
        failing_read: 0,
        failing_write: 0,
    };
    expect_run(rt, alloc, &case, 0, row.written, "");
}

/// The program writes of each text of the table what its row says.
pub fn expect_lists(rt: &impl Abort, alloc: Global, table: &str) {
    for line in table.lines() {
        expect_list(rt, alloc, line);
    }
}

/// Names, texts, and what is written of them, with ends of lines as `|`.
static ROWS: &str = "\
a sum of two constants -- func { b0(): a = const 1; b = const 2; c = add a b; ret c } => func { b0(): v0 = const \
    1; v1 = const 2; v2 = const 3; v3 = add v0 v1; ret v2 }|changed|
a sum that wraps -- func { b0(): a = const 9223372036854775807; b = const 1; c = add a b; ret c } => func { b0(): \
    v0 = const 9223372036854775807; v1 = const 1; v2 = const -9223372036854775808; v3 = add v0 v1; ret v2 }|changed|
an empty function -- func { b0(): ret } => func { b0(): ret }|unchanged|
sums of sums -- func { b0(): a = const 5; b = add a a; c = add b a; ret c b } => func { b0(): v0 = const 5; v1 = \
    const 10; v2 = add v0 v0; v3 = const 15; v4 = add v1 v0; ret v3 v1 }|changed|
the smallest number, twice -- func{b0():a=const -9223372036854775808;b=add a a;ret} => func { b0(): v0 = const \
    -9223372036854775808; v1 = const 0; v2 = add v0 v0; ret }|changed|
one name for a block and a value -- func { a(): a = const 7; ret a a } => func { b0(): v0 = const 7; ret v0 v0 \
    }|unchanged|
an empty module -- mod { } => mod { }|unchanged|
a read -- func { b0(): a = read; ret a } => func { b0(): v0 = read; ret v0 }|unchanged|
an operation of itself -- func { b0(): a = add a a; ret a } => func { b0(): v0 = add v0 v0; ret v0 }|unchanged|
an operation behind a terminator -- func { b0(): ret; ret } => func { b0(): ret; ret }|unchanged|
a constant that goes round a loop -- func { b0(): z = const 0; br b1(z); b1(i): r = read; cbr r b1(i) b2(); b2(): \
    ret i } => func { b0(): v0 = const 0; br b1(v0); b1(v1): v2 = const 0; v3 = read; cbr v3 b1(v2) b2(); b2(): \
    ret v2 }|changed|
a sum in a region -- func { b0(): a = const 2; scope { b0(): b = add a a; print b; ret }; ret } => func { b0(): v0 \
    = const 2; scope { b0(): v1 = const 4; v2 = add v0 v0; print v1; ret }; ret }|changed|
a function in a module -- mod { b0(): func { b0(): a = const 1; b = add a a; ret b } } => mod { b0(): func { b0(): \
    v0 = const 1; v1 = const 2; v2 = add v0 v0; ret v1 } }|changed|";

fn check_row(rt: &impl Abort, alloc: Global, line: &str) {
    let (name, row) = line.split_once(" -- ").expect(rt, "a name");
    let (text, written) = row.split_once(" => ").expect(rt, "a case");
    expect_run(
        rt,
        alloc,
        &propagation(name, text.as_bytes()),
        0,
        written,
        "",
    );
}

#[test]
fn rows(rt: HostRuntime) {
    for line in ROWS.lines() {
        check_row(&rt, rt.alloc(), line);
    }
}

/// Names, lists of passes and texts, and what is written of them. After `dce` of `dce,sccp` the handles of values lie
/// too far apart to be guessed.
static LISTS: &str = "\
a sum is folded and erased -- sccp,dce :: func { b0(): a = const 1; b = const 2; c = add a b; ret c } => func { \
    b0(): v0 = const 3; ret v0 }|changed|
a sum is folded twice -- sccp,sccp :: func { b0(): a = const 1; b = const 2; c = add a b; ret c } => func { b0(): \
    v0 = const 1; v1 = const 2; v2 = const 3; v3 = const 3; v4 = add v0 v1; ret v2 }|changed|
a division by 0 stays -- sccp,dce :: func { b0(): a = const 1; z = const 0; d = div a z; ret a } => func { b0(): \
    v0 = const 1; v1 = const 0; v2 = div v0 v1; ret v0 }|unchanged|
a quotient is folded, and the division stays -- sccp,dce :: func { b0(): a = const 7; b = const -2; d = div a b; \
    ret d } => func { b0(): v0 = const 7; v1 = const -2; v2 = const -3; v3 = div v0 v1; ret v2 }|changed|
a product with 0 -- sccp,dce :: func { b0(x): z = const 0; m = mul x z; ret m } => func { b0(v0): v1 = const 0; \
    ret v1 }|changed|
keys far apart -- dce,sccp :: func { b0(): a = const 1; d = add a a; e = add d a; f = add e a; g = add f a; h = \
    add g a; i = add h a; b = const 2; c = add a b; ret c } => func { b0(): v0 = const 1; v1 = const 2; v2 = const \
    3; v3 = add v0 v1; ret v2 }|changed|
dead code twice -- dce,dce :: func { b0(): x = const 1; br b1(x); b1(a): c = const 7; ret c } => func { b0(): br \
    b1(); b1(): v0 = const 7; ret v0 }|changed|
a division by 0 stays, by dce alone -- dce :: func { b0(): a = const 1; z = const 0; d = div a z; ret a } => func \
    { b0(): v0 = const 1; v1 = const 0; v2 = div v0 v1; ret v0 }|unchanged|
arguments that a sink alone reads -- dce :: func { b0(): l, r = pair; sink l l r r; br b1(l, r); b1(a, b): k = \
    const 99; ret k } => func { b0(): br b1(); b1(): v0 = const 99; ret v0 }|changed|
a box with what it uses -- dce :: func { b0(): k = const 4; box { b0(): sink k }; ret } => func { b0(): ret \
    }|changed|
an argument that goes round a loop -- dce :: func { b0(): z = const 0; br b1(z); b1(i): r = read; cbr r b1(i) \
    b2(); b2(): ret } => func { b0(): v0 = const 0; br b1(v0); b1(v1): v2 = read; cbr v2 b1(v1) b2(); b2(): ret \
    }|unchanged|
a fork keeps arguments -- dce :: func { b0(x): fork x b1 b1; b1(p): ret } => func { b0(v0): fork v0 b1 b1; b1(v1): \
    ret }|unchanged|
both edges of a branch to one block -- dce :: func { b0(x): cbr x b1(x) b1(x); b1(p): ret } => func { b0(v0): cbr \
    v0 b1() b1(); b1(): ret }|changed|
a branch on an argument folds in a second run -- simplify-cfg :: func { b0(): a = const 1; br b1(a); b1(p): cbr p \
    b2() b3(); b2(): ret p; b3(): ret } => func { b0(): v0 = const 1; cbr v0 b1() b2(); b1(): ret v0; b2(): ret \
    }|changed|
a ring behind the entry -- simplify-cfg :: func { b0(): br b1(); b1(): br b2(); b2(): br b1() } => func { b0(): br \
    b1(); b1(): br b1() }|changed|
an empty module -- simplify-cfg :: mod { } => mod { }|unchanged|
an empty function -- simplify-cfg :: func { b0(): ret } => func { b0(): ret }|unchanged|
a loop of one block -- simplify-cfg :: func { b0(): br b0() } => func { b0(): br b0() }|unchanged|
a known condition, with both edges to one block -- simplify-cfg :: func { b0(): c = const 0; d = const 2; cbr c \
    b1(c) b1(d); b1(p): ret p } => func { b0(): v0 = const 0; v1 = const 2; ret v1 }|changed|
what is forwarded is the argument itself -- simplify-cfg :: func { b0(): br b1(p); b1(p): ret p } => func { b0(): \
    br b1(v0); b1(v0): ret v0 }|unchanged|
fewer values than the block takes -- simplify-cfg :: func { b0(): br b1(); b1(p): ret p } => func { b0(): br b1(); \
    b1(v0): ret v0 }|unchanged|
a module's first block alone -- simplify-cfg :: mod { b0(): func { b0(): br b1(); b1(): ret }; b1(): func { b0(): \
    br b1(); b1(): ret } } => mod { b0(): func { b0(): ret }; b1(): func { b0(): br b1(); b1(): ret } }|changed|
a branch whose way is known, by all three -- sccp,simplify-cfg,dce :: func { b0(): c = const 1; x = const 5; cbr c \
    b1(x) b2(); b1(p): br b3(p); b2(): y = const 6; br b3(y); b3(q): ret q } => func { b0(): v0 = const 5; ret v0 \
    }|changed|
a branch on an argument, by all three -- sccp,simplify-cfg,dce :: func { b0(): a = const 1; br b1(a); b1(p): cbr p \
    b2() b3(); b2(): ret p; b3(): ret } => func { b0(): v0 = const 1; ret v0 }|changed|
each function of a module -- nested:simplify-cfg :: mod { b0(): func { b0(): br b1(); b1(): ret }; b1(): func { \
    b0(): br b1(); b1(): ret } } => mod { b0(): func { b0(): ret }; b1(): func { b0(): ret } }|changed|
nothing directly inside to simplify -- nested:simplify-cfg :: func { b0(): br b1(); b1(): ret } => func { b0(): br \
    b1(); b1(): ret }|unchanged|
dead code inside a box alone -- nested:dce :: func { b0(): k = const 4; box { b0(): sink k }; ret } => func { \
    b0(): v0 = const 4; box { b0(): }; ret }|changed|
two passes on each function -- nested:sccp,dce :: mod { b0(): func { b0(): a = const 1; b = const 2; c = add a b; \
    ret c }; func { b0(): ret } } => mod { b0(): func { b0(): v0 = const 3; ret v0 }; func { b0(): ret } }|changed|
nothing directly inside -- nested:dce :: mod { } => mod { }|unchanged|
until nothing changes -- repeat:8:simplify-cfg :: func { b0(): a = const 1; br b1(a); b1(p): cbr p b2() b3(); \
    b2(): ret p; b3(): ret } => func { b0(): v0 = const 1; ret v0 }|changed|
once -- repeat:1:simplify-cfg :: func { b0(): a = const 1; br b1(a); b1(p): cbr p b2() b3(); b2(): ret p; b3(): \
    ret } => func { b0(): v0 = const 1; cbr v0 b1() b2(); b1(): ret v0; b2(): ret }|changed|
twice -- repeat:2:sccp :: func { b0(): a = const 1; b = const 2; c = add a b; ret c } => func { b0(): v0 = const \
    1; v1 = const 2; v2 = const 3; v3 = const 3; v4 = add v0 v1; ret v2 }|changed|
three times -- repeat:3:sccp :: func { b0(): a = const 1; b = const 2; c = add a b; ret c } => func { b0(): v0 = \
    const 1; v1 = const 2; v2 = const 3; v3 = const 3; v4 = const 3; v5 = add v0 v1; ret v2 }|changed|
two passes until nothing changes -- repeat:8:sccp,dce :: func { b0(): a = const 1; b = const 2; c = add a b; ret c \
    } => func { b0(): v0 = const 3; ret v0 }|changed|
nothing to repeat -- repeat:64:dce :: func { b0(): ret } => func { b0(): ret }|unchanged|
regions that hand on a constant -- repeat:8:sccp,dce :: func { b0(): a = const 7; scope a { b0(p): scope p { \
    b0(q): print q; ret }; ret }; ret } => func { b0(): v0 = const 7; scope v0 { b0(v1): v2 = const 7; scope v2 { \
    b0(v3): v4 = const 7; print v4; ret }; ret }; ret }|changed|
a sum is no branch -- simplify-cfg :: func { b0(): a = const 1; b = const 2; c = add a b; ret c } => func { b0(): \
    v0 = const 1; v1 = const 2; v2 = add v0 v1; ret v2 }|unchanged|
a branch whose way is known, by sccp -- sccp :: func { b0(): c = const 1; x = const 5; cbr c b1(x) b2(); b1(p): br \
    b3(p); b2(): y = const 6; br b3(y); b3(q): ret q } => func { b0(): v0 = const 1; v1 = const 5; cbr v0 b1(v1) \
    b2(); b1(v2): v3 = const 5; br b3(v3); b2(): v4 = const 6; br b3(v4); b3(v5): v6 = const 5; ret v6 }|changed|
a branch whose way is known, by dce -- dce :: func { b0(): c = const 1; x = const 5; cbr c b1(x) b2(); b1(p): br \
    b3(p); b2(): y = const 6; br b3(y); b3(q): ret q } => func { b0(): v0 = const 1; v1 = const 5; cbr v0 b1(v1) \
    b2(); b1(v2): br b3(v2); b2(): v3 = const 6; br b3(v3); b3(v4): ret v4 }|unchanged|
a branch whose way is known, by simplify-cfg -- simplify-cfg :: func { b0(): c = const 1; x = const 5; cbr c b1(x) \
    b2(); b1(p): br b3(p); b2(): y = const 6; br b3(y); b3(q): ret q } => func { b0(): v0 = const 1; v1 = const 5; \
    ret v1 }|changed|
arguments that a sink alone reads, by sccp -- sccp :: func { b0(): l, r = pair; sink l l r r; br b1(l, r); b1(a, \
    b): k = const 99; ret k } => func { b0(): v0, v1 = pair; sink v0 v0 v1 v1; br b1(v0, v1); b1(v2, v3): v4 = \
    const 99; ret v4 }|unchanged|
arguments that a sink alone reads, by simplify-cfg -- simplify-cfg :: func { b0(): l, r = pair; sink l l r r; br \
    b1(l, r); b1(a, b): k = const 99; ret k } => func { b0(): v0, v1 = pair; sink v0 v0 v1 v1; v2 = const 99; ret \
    v2 }|changed|
dead arguments, then one block -- dce,simplify-cfg :: func { b0(): l, r = pair; sink l l r r; br b1(l, r); b1(a, \
    b): k = const 99; ret k } => func { b0(): v0 = const 99; ret v0 }|changed|
a constant argument that branches -- sccp :: func { b0(): a = const 1; br b1(a); b1(p): cbr p b2() b3(); b2(): ret \
    p; b3(): ret } => func { b0(): v0 = const 1; br b1(v0); b1(v1): v2 = const 1; cbr v2 b2() b3(); b2(): ret v2; \
    b3(): ret }|changed|
a read argument that branches -- dce :: func { b0(): a = const 1; br b1(a); b1(p): cbr p b2() b3(); b2(): ret p; \
    b3(): ret } => func { b0(): v0 = const 1; br b1(v0); b1(v1): cbr v1 b2() b3(); b2(): ret v1; b3(): ret \
    }|unchanged|
each function until nothing changes -- repeat:10:nested:simplify-cfg :: mod { b0(): func { b0(): br b1(); b1(): \
    ret }; b1(): func { b0(): br b1(); b1(): ret } } => mod { b0(): func { b0(): ret }; b1(): func { b0(): ret } \
    }|changed|";

#[test]
fn lists(rt: HostRuntime) {
    expect_lists(&rt, rt.alloc(), LISTS)
}

/// Names, lists of passes and texts of which each ends with status 1 or 2, and what is reported. Where a text is
/// refused, writing would fail too; where reading fails, the text would be unreadable too.
static REFUSED: &str = "\
a used value of an unreachable block -- simplify-cfg :: func { b0(): ret v; b1(): v = const 1; br b1() } => \
    refused: a value of an unreachable block is used|
refused in a second pass -- dce,simplify-cfg :: func { b0(): ret v; b1(): v = const 1; br b1() } => refused: a \
    value of an unreachable block is used|
refused in a function of a module -- nested:simplify-cfg :: mod { b0(): func { b0(): ret v; b1(): v = const 1; br \
    b1() } } => refused: a value of an unreachable block is used|
refused in a repeated pass -- repeat:3:simplify-cfg :: func { b0(): ret v; b1(): v = const 1; br b1() } => \
    refused: a value of an unreachable block is used|
a use in a nested region -- simplify-cfg :: func { b0(): br b2(); b1(): v = const 1; br b2(); b2(): scope { b0(): \
    print v; ret }; ret } => refused: a value of an unreachable block is used|
unreachable once a branch is folded -- simplify-cfg :: func { b0(): c = const 0; cbr c b1() b2(); b1(): v = const \
    1; br b2(); b2(): print v; ret } => refused: a value of an unreachable block is used|
an unreadable text -- dce :: func { b0(): a = const 1 => unreadable text|
an unreadable number -- repeat:2:nested:dce :: func { b0(): a = const 9223372036854775808; ret a } => unreadable \
    text|";

fn check_refused(rt: &impl Abort, alloc: Global, line: &str) {
    let row = list_row_of(rt, line);
    let mut case = Case {
        name: row.name,
        args: &[row.list],
        text: row.text.as_bytes(),
        failing_read: 0,
        failing_write: 1,
    };
    let is_refused = row.written.starts_with("refused");
    expect_run(
        rt,
        alloc,
        &case,
        if is_refused { 1 } else { 2 },
        "",
        row.written,
    );
    case.failing_read = 1;
    expect_run(rt, alloc, &case, 2, "", "cannot read standard input|");
}

#[test]
fn refused_texts(rt: HostRuntime) {
    for line in REFUSED.lines() {
        check_refused(&rt, rt.alloc(), line);
    }
}

/// Names and texts that cannot be read. The first is empty.
static UNREADABLE: &str = "\
nothing --\x20
no braces -- func
no closing brace -- func { b0(): a = const 1
a function without blocks -- func { }
a return of a block -- func { b0(): ret b0 }
one name for two results -- func { b0(): a = const 1; a = const 2; ret a }
one above the greatest -- func { b0(): a = const 9223372036854775808; ret a }
one below the least -- func { b0(): a = const -9223372036854775809; ret a }
a sign before 0 -- func { b0(): a = const -0; ret a }
0 before a number -- func { b0(): a = const 01; ret a }
a sign alone -- func { b0(): a = const -; ret a }
a sum's word as a name -- func { b0(): add = const 1; ret add }
a product's word as a name -- func { b0(): mul = const 1; ret mul }
a semicolon behind the last operation -- func { b0(): ret; }
two functions at the top -- func { b0(): ret } func { b0(): ret }
a hash -- func { b0(): ret # }
a letter with a mark -- func { b0(): \u{e4} = const 1; ret }
a name of 65 letters -- func { b0(): a234567890123456789012345678901234567890123456789012345678901234x = const 1; \
    ret }";

fn check_unreadable(rt: &impl Abort, alloc: Global, line: &str) {
    let (name, text) = line.split_once(" -- ").expect(rt, "a name");
    let case = propagation(name, text.as_bytes());
    expect_run(rt, alloc, &case, 2, "", "unreadable text|");
}

#[test]
fn unreadable_texts(rt: HostRuntime) {
    for line in UNREADABLE.lines() {
        check_unreadable(&rt, rt.alloc(), line);
    }
    let longest =
        "func { b0(): a23456789012345678901234567890123456789012345678901234567890123x = const 1; ret }";
    let printed = "func { b0(): v0 = const 1; ret }|unchanged|";
    let case = propagation("the longest name", longest.as_bytes());
    expect_run(&rt, rt.alloc(), &case, 0, printed, "");
}

// A text followed by so many blanks.
fn pad_text(rt: &impl Abort, alloc: Global, text: &str, blanks: usize) -> Vec<u8> {
    let mut padded = Vec::from_slice(alloc, text.as_bytes()).expect(rt, "memory");
    padded
        .resize(text.len().saturating_add(blanks), b' ')
        .expect(rt, "memory");
    padded
}

static SHORT: &str = "func { b0(): ret }";

fn check_padded(rt: &impl Abort, alloc: Global, name: &str, blanks: usize, is_read: bool) {
    let text = pad_text(rt, alloc, SHORT, blanks);
    let case = propagation(name, &text);
    if is_read {
        expect_run(rt, alloc, &case, 0, "func { b0(): ret }|unchanged|", "");
    } else {
        expect_run(rt, alloc, &case, 2, "", "unreadable text|");
    }
}

// How many bytes of the text are read.
fn count_read(rt: &impl Abort, alloc: Global, text: &[u8]) -> usize {
    let args = owned(rt, alloc, &["sccp"]);
    let mut input = Input::new(text, 0);
    let mut output = Output::new(alloc, 0);
    let mut errors = Output::new(alloc, 0);
    let status = plir_run(alloc, &args, &mut input, &mut output, &mut errors);
    assert!(rt; status == 2);
    text.len().saturating_sub(input.unread_len())
}

#[test]
fn reads_no_more_than_one_byte_past_the_limit(rt: HostRuntime) {
    let alloc = rt.alloc();
    check_padded(&rt, alloc, "the longest text", 1_048_576 - 18, true);
    check_padded(&rt, alloc, "a longer text", 1_048_577 - 18, false);
    let longest_by_far = pad_text(&rt, alloc, SHORT, 1_100_000);
    assert!(rt; count_read(&rt, alloc, &longest_by_far) == 1_048_577);
}

/// Names, and words of which none is a list.
static BAD_LISTS: &str = "\
nothing --\x20
nothing between commas -- dce,,sccp
nothing behind a comma -- dce,
nothing before a comma -- ,dce
capitals -- SCCP
a blank behind a pass -- sccp\x20
no pass -- passes
a pass that the program lacks -- canonicalize
another -- cse
graph before a pass -- graph,dce
nested alone -- nested
nested with nothing -- nested:
nested graph -- nested:graph
a blank behind nested -- nested: dce
nested in nested -- nested:nested:dce
repeat in nested -- nested:repeat:2:dce
repeat with a number alone -- repeat:8
repeat with nothing -- repeat:8:
repeat without a number -- repeat::dce
no rounds -- repeat:0:dce
too many rounds -- repeat:65:dce
0 before the number of rounds -- repeat:08:dce
a plus sign -- repeat:+8:dce
a minus sign -- repeat:-1:dce
a blank before the number of rounds -- repeat: 8:dce
a number above 64 bits -- repeat:184467440737095516168:dce
repeat of graph -- repeat:8:graph
repeat in repeat -- repeat:2:repeat:2:dce
a comma for a colon -- repeat:8,dce
a capital in nested -- Nested:dce";

// A fault of the arguments is found before the text is read.
fn check_bad(rt: &impl Abort, alloc: Global, name: &str, args: &[&str]) {
    let case = Case {
        name,
        args,
        text: b"#",
        failing_read: 1,
        failing_write: 1,
    };
    expect_run(
        rt,
        alloc,
        &case,
        2,
        "",
        "usage: plir_opt LIST, or plir_opt graph|",
    );
}

fn check_bad_list(rt: &impl Abort, alloc: Global, line: &str) {
    let (name, list) = line.split_once(" -- ").expect(rt, "a name");
    check_bad(rt, alloc, name, &[list]);
}

#[test]
fn bad_arguments(rt: HostRuntime) {
    let alloc = rt.alloc();
    check_bad(&rt, alloc, "no words", &[]);
    check_bad(&rt, alloc, "graph twice", &["graph", "graph"]);
    check_bad(&rt, alloc, "a pass twice", &["sccp", "sccp"]);
    for line in BAD_LISTS.lines() {
        check_bad_list(&rt, alloc, line);
    }
}

static FAILING: &str = "func { b0(): a = const 1; ret a }";

// The program on it, where the read or the write of this number fails.
fn failing_at<'t>(name: &'t str, read: u32, write: u32) -> Case<'t> {
    Case {
        name,
        args: &["sccp"],
        text: FAILING.as_bytes(),
        failing_read: read,
        failing_write: write,
    }
}

fn check_failing_read(rt: &impl Abort, alloc: Global, kth: u32) {
    let case = failing_at("a failing read", kth, 0);
    expect_run(rt, alloc, &case, 2, "", "cannot read standard input|");
}

fn check_failing_write(rt: &impl Abort, alloc: Global, kth: u32, line: &str) {
    let (name, written) = line.split_once(" -- ").expect(rt, "a name");
    let case = failing_at(name, 7, kth);
    expect_run(
        rt,
        alloc,
        &case,
        2,
        written,
        "cannot write standard output|",
    );
}

#[test]
fn failing_streams(rt: HostRuntime) {
    let printed = "func { b0(): v0 = const 1; ret v0 }|unchanged|";
    // 33 bytes come by five reads, and a sixth says that none is left.
    for kth in 1..7u32 {
        check_failing_read(&rt, rt.alloc(), kth);
    }
    let last_read = failing_at("the read behind the last", 7, 0);
    expect_run(&rt, rt.alloc(), &last_read, 0, printed, "");
    // 46 bytes go by six writes, of eight each but the last.
    for (kth, line) in (1u32..).zip(WRITTEN.lines()) {
        check_failing_write(&rt, rt.alloc(), kth, line);
    }
    let last_write = failing_at("the write behind the last", 7, 7);
    expect_run(&rt, rt.alloc(), &last_write, 0, printed, "");
}

/// The name of a write, and what was written before it. Before the first it is nothing.
static WRITTEN: &str = "\
the first write --\x20
the second write -- func { b
the third write -- func { b0(): v0\x20
the fourth write -- func { b0(): v0 = const\x20
the fifth write -- func { b0(): v0 = const 1; ret v
the sixth write -- func { b0(): v0 = const 1; ret v0 }|unch";

#[test]
fn a_failed_report_is_ignored(rt: HostRuntime) {
    let alloc = rt.alloc();
    let mut input = Input::new(b"", 0);
    let mut output = Output::new(alloc, 0);
    let mut errors = Output::new(alloc, 1);
    let status = plir_run(alloc, &[], &mut input, &mut output, &mut errors);
    assert!(rt; status == 2);
    assert!(rt; errors.text().is_empty());
}

static FAULTS: &str = "want of memory
a value of an unreachable block is used
verification failed before the pass
verification failed after the pass
the pass failed with code 7";

fn check_fault(rt: &impl Abort, alloc: Global, fault: &OptError, want: &str) {
    let text = format!(in alloc; "{fault}").expect(rt, "memory");
    expect_text(rt, text.as_str(), want, "a fault");
}

#[test]
fn texts_of_faults(rt: HostRuntime) {
    let faults = [
        OptError::Memory,
        OptError::LiveUse,
        OptError::VerifyBefore,
        OptError::VerifyAfter,
        OptError::Pass(7),
    ];
    for (fault, want) in faults.iter().zip(FAULTS.lines()) {
        check_fault(&rt, rt.alloc(), fault, want);
    }
}
