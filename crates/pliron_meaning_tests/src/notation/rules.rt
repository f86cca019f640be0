//! Each rule of the grammar broken, and beside it kept: to the left of ` => ` an unreadable text, to its right
//! one that is read. `|` stands for the end of a line.
use super::printed_line;
use pliron_test_cases::cases::{CaseRow, row_of};
use std::alloc::Global;
use std::process::Abort;

/// Blocks and their arguments.
static BLOCKS: &str = "\
no braces -- mod => mod { }
no closing brace -- mod { => mod { }
nothing --  => mod { }
blanks alone --  \t\r| =>  \t\r|mod { }
no opening brace -- mod } => mod { }
no word before the braces -- { } => mod { }
a brace behind the end -- mod { } } => mod { }
a semicolon behind the end -- mod { } ; => mod { }
two modules at the top -- mod { } mod { } => mod { b0(): mod { }; mod { } }
two modules at the top, with a semicolon -- mod { }; mod { } => mod { b0(): mod { }; mod { } }
an operand of a module -- mod a { } => mod { }
an operand of a function -- func a { b0(a): } => func { b0(a): }
a result of a module -- a = mod { } => mod { }
no closing brace of a function -- func { b0(): a = const 1 => func { b0(): a = const 1 }
operations without a block -- func { ret } => func { b0(): ret }
no colon of a block -- func { b0() ret } => func { b0(): ret }
no brackets of a block -- func { b0: ret } => func { b0(): ret }
no closing bracket of a block -- func { b0(: ret } => func { b0(): ret }
no opening bracket of a block -- func { b0): ret } => func { b0(): ret }
no name of a block -- func { (): ret } => func { b0(): ret }
no comma between arguments -- func { b0(a b): } => func { b0(a, b): }
a comma behind the last argument -- func { b0(a,): } => func { b0(a): }
a comma before the first argument -- func { b0(,a): } => func { b0(a): }
two commas between arguments -- func { b0(a,, b): } => func { b0(a, b): }
a number as an argument -- func { b0(1): } => func { b0(a): }
no colon of an empty block -- mod { b0() } => mod { b0(): }
no semicolon between blocks -- mod { b0(): b1(): } => mod { b0():; b1(): }
two semicolons between blocks -- mod { b0():;; b1(): } => mod { b0():; b1(): }
a semicolon behind the last block -- mod { b0():; } => mod { b0(): }
a semicolon before the first block -- mod { ; b0(): } => mod { b0(): }
a semicolon in an empty module -- mod { ; } => mod { }
a semicolon between a block and its operation -- mod { b0():; func { b0(): } } => mod { b0(): func { b0(): } }
a semicolon behind the last operation -- func { b0(): ret; } => func { b0(): ret }
a semicolon before the first operation -- func { b0(): ; ret } => func { b0(): ret }
two semicolons between operations -- func { b0(): ret;; ret } => func { b0(): ret; ret }
no semicolon between operations -- func { b0(): ret ret } => func { b0(): ret; ret }
a comma between operations -- func { b0(): ret, ret } => func { b0(): ret; ret }
no semicolon before a block -- func { b0(): ret b1(): } => func { b0(): ret; b1(): }
no semicolon behind a region -- func { b0(): box { } box { } } => func { b0(): box { }; box { } }";

/// Results and operands.
static OPERANDS: &str = "\
no result of a constant -- func { b0(): const 1 } => func { b0(): a = const 1 }
two results of a constant -- func { b0(): a, b = const 1 } => func { b0(): a = const 1 }
no result of a read -- func { b0(): read } => func { b0(): a = read }
an operand of a read -- func { b0(a): b = read a } => func { b0(a): b = read }
one result of a pair -- func { b0(): a = pair } => func { b0(): a, b = pair }
no comma between results -- func { b0(): a b = pair } => func { b0(): a, b = pair }
three results of a pair -- func { b0(): a, b, c = pair } => func { b0(): a, b = pair }
an operand of a pair -- func { b0(a): b, c = pair a } => func { b0(a): b, c = pair }
no result of a sum -- func { b0(a): add a a } => func { b0(a): b = add a a }
one operand of a sum -- func { b0(a): b = add a } => func { b0(a): b = add a a }
three operands of a sum -- func { b0(a): b = add a a a } => func { b0(a): b = add a a }
a comma between operands of a sum -- func { b0(a): b = add a, a } => func { b0(a): b = add a a }
a number as an operand of a sum -- func { b0(a): b = add a 1 } => func { b0(a): b = add a a }
one operand of a product -- func { b0(a): b = mul a } => func { b0(a): b = mul a a }
three operands of a product -- func { b0(a): b = mul a a a } => func { b0(a): b = mul a a }
no operands of a quotient -- func { b0(a): b = div } => func { b0(a): b = div a a }
three operands of a quotient -- func { b0(a): b = div a a a } => func { b0(a): b = div a a }
no operand of a print -- func { b0(a): print } => func { b0(a): print a }
two operands of a print -- func { b0(a): print a a } => func { b0(a): print a }
a result of a print -- func { b0(a): b = print a } => func { b0(a): print a }
a result of a sink -- func { b0(a): b = sink a } => func { b0(a): sink a }
a comma between operands of a sink -- func { b0(a): sink a, a } => func { b0(a): sink a a }
a number as an operand of a sink -- func { b0(a): sink 1 } => func { b0(a): sink }
a scope without a region -- func { b0(a): scope a } => func { b0(a): scope a { b0(): } }
brackets around operands of a scope -- func { b0(a): scope (a) { b0(): } } => func { b0(a): scope a a { b0(): } }
a result of a scope -- func { b0(a): b = scope a { b0(): } } => func { b0(a): scope a { b0(): } }
a box without a region -- func { b0(): box } => func { b0(): box { } }
an operand of a box -- func { b0(a): box a { } } => func { b0(a): box { } }
a result of a box -- func { b0(): a = box { } } => func { b0(): box { } }
a comma between operands of a return -- func { b0(a): ret a, a } => func { b0(a): ret a a }
a result of a return -- func { b0(): a = ret } => func { b0(): ret }
no name before an equals sign -- func { b0(): = read } => func { b0(): a = read }
no equals sign -- func { b0(): a read } => func { b0(): a = read }
nothing behind an equals sign -- func { b0(): a = } => func { b0(): a = read }
a name behind an equals sign -- func { b0(): a = b } => func { b0(): a = read }
a name alone -- func { b0(): a } => func { b0(): a = read }";

/// Edges.
static EDGES: &str = "\
a jump without a target -- func { b0(): br } => func { b0(): br b0() }
a jump without brackets -- func { b0(): br b0 } => func { b0(): br b0() }
a jump without a name -- func { b0(): br () } => func { b0(): br b0() }
a jump without its closing bracket -- func { b0(): br b0( } => func { b0(): br b0() }
two targets of a jump -- func { b0(): br b0() b0() } => func { b0(): br b0() }
a result of a jump -- func { b0(): a = br b0() } => func { b0(): br b0() }
no comma between values -- func { b0(a): br b0(a a) } => func { b0(a): br b0(a, a) }
a comma behind the last value -- func { b0(a): br b0(a,) } => func { b0(a): br b0(a) }
a comma before the first value -- func { b0(a): br b0(,a) } => func { b0(a): br b0(a) }
a number as a value -- func { b0(a): br b0(1) } => func { b0(a): br b0() }
a branch without targets -- func { b0(a): cbr a } => func { b0(a): cbr a b0() b0() }
one target of a branch -- func { b0(a): cbr a b0() } => func { b0(a): cbr a b0() b0() }
a branch without a condition -- func { b0(a): cbr b0() b0() } => func { b0(a): cbr a b0() b0() }
a branch without brackets -- func { b0(a): cbr a b0 b0 } => func { b0(a): cbr a b0() b0() }
a comma between targets of a branch -- func { b0(a): cbr a b0(), b0() } => func { b0(a): cbr a b0() b0() }
a comma behind a condition -- func { b0(a): cbr a, b0() b0() } => func { b0(a): cbr a b0() b0() }
three targets of a branch -- func { b0(a): cbr a b0() b0() b0() } => func { b0(a): cbr a b0() b0() }
one target of a fork -- func { b0(a): fork a b0 } => func { b0(a): fork a b0 b0 }
a fork without a condition -- func { b0(a): fork b0 b0 } => func { b0(a): fork a b0 b0 }
a fork with two conditions -- func { b0(a): fork a a b0 b0 } => func { b0(a): fork a b0 b0 }
three targets of a fork -- func { b0(a): fork a b0 b0 b0 } => func { b0(a): fork a b0 b0 }
a fork with brackets -- func { b0(a): fork a b0() b0() } => func { b0(a): fork a b0 b0 }
a comma between targets of a fork -- func { b0(a): fork a b0, b0 } => func { b0(a): fork a b0 b0 }";

/// What is in what.
static PLACES: &str = "\
a box at the top -- box { } => func { b0(): box { } }
a scope at the top -- scope { b0(): } => func { b0(): scope { b0(): } }
a constant at the top -- a = const 1 => func { b0(): a = const 1 }
a return at the top -- ret => func { b0(): ret }
an argument of a module's entry -- mod { b0(x): } => func { b0(x): }
an argument of a module's second block -- mod { b0():; b1(x): } => mod { b0():; b1(): }
a constant in a module -- mod { b0(): a = const 1 } => func { b0(): a = const 1 }
a return in a module -- mod { b0(): ret } => mod { b0(): func { b0(): ret } }
a box in a module -- mod { b0(): box { } } => mod { b0(): mod { } }
a scope in a module -- mod { b0(): scope { b0(): } } => mod { b0(): func { b0(): } }
a module in a function -- func { b0(): mod { } } => mod { b0(): mod { } }
a module in a box -- func { b0(): box { b0(): mod { } } } => func { b0(): box { b0(): } }
a module in a scope -- func { b0(): scope { b0(): mod { } } } => func { b0(): scope { b0(): } }
a function in a function -- func { b0(): func { b0(): } } => mod { b0(): func { b0(): } }
a function in a box -- func { b0(): box { b0(): func { b0(): } } } => func { b0(): box { b0(): box { } } }
a function in a scope -- func { b0(): scope { b0(): func { b0(): } } } => func { b0(): scope { b0(): scope { b0(): \
    } } }
a function without blocks -- func { } => mod { }
a function without blocks in a module -- mod { b0(): func { } } => mod { b0(): func { b0(): } }
a scope without blocks -- func { b0(): scope { } } => func { b0(): box { } }
a scope without blocks, with an operand -- func { b0(a): scope a { } } => func { b0(a): scope a { b0(): } }
a jump before a constant -- func { b0(): br b0(); a = const 1 } => func { b0(): a = const 1; br b0() }
a jump before a jump -- func { b0(): br b0(); br b0() } => func { b0(): br b0() }
a branch before a return -- func { b0(a): cbr a b0() b0(); ret } => func { b0(a): ret; cbr a b0() b0() }
a fork before a return -- func { b0(a): fork a b0 b0; ret } => func { b0(a): ret; fork a b0 b0 }
a jump before a return in a scope -- func { b0(): scope { b0(): br b0(); ret } } => func { b0(): scope { b0(): br \
    b0() }; ret }";

/// What names stand for, and where.
static MEANINGS: &str = "\
one name for two blocks -- func { b0(): ret; b0(): ret } => func { b0(): ret; b1(): ret }
one name for two blocks of a module -- mod { b0():; b0(): } => mod { b0():; b1(): }
one name for two blocks of a box -- func { b0(): box { b1():; b1(): } } => func { b0(): box { b0():; b1(): }; box \
    { b0():; b1(): } }
a jump to no block -- func { b0(): br b1() } => func { b0(): br b0() }
a jump into a box -- func { b0(): box { b1(): }; br b1() } => func { b0(): box { b1(): }; br b0() }
a jump out of a box -- func { b0(): box { b1(): br b0() } } => func { b0(): box { b0(): br b0() } }
a branch whose second target is no block -- func { b0(a): cbr a b0() b1() } => func { b0(a): cbr a b0() b1(); \
    b1(): }
a branch whose first target is no block -- func { b0(a): cbr a b1() b0() } => func { b0(a): cbr a b1() b0(); b1(): }
a fork whose second target is no block -- func { b0(a): fork a b0 b1 } => func { b0(a): fork a b0 b1; b1(): }
a fork whose first target is no block -- func { b0(a): fork a b1 b0 } => func { b0(a): fork a b1 b0; b1(): }
a jump to a block of another function -- mod { b0(): func { b1(): }; func { b0(): br b1() } } => mod { b0(): func \
    { b1(): br b1() }; func { b0(): br b0() } }
one name for two results -- func { b0(): x = const 1; x = const 2 } => func { b0(): x = const 1; y = const 2 }
one name for two arguments -- func { b0(x, x): } => func { b0(x, y): }
one name for an argument and a result -- func { b0(x): x = read } => func { b0(x): y = read }
one name for arguments of two blocks -- func { b0(x):; b1(x): } => func { b0(x):; b1(y): }
one name for both results of a pair -- func { b0(): a, a = pair } => func { b0(): a, b = pair }
an argument's name again in a box -- func { b0(x): box { b0(x): } } => func { b0(x): box { b0(y): } }
a result's name again in a scope -- func { b0(): x = read; scope { b0(): x = read } } => func { b0(): x = read; \
    scope { b0(): y = read } }
one name for two arguments of a second function -- mod { b0(): func { b0(x): }; func { b0(x, x): } } => mod { \
    b0(): func { b0(x): }; func { b0(x): } }
a return of no value -- func { b0(): ret y } => func { b0(y): ret y }
a return of a block -- func { b0(): ret b0 } => func { b0(b0): ret b0 }
a print of no value -- func { b0(): print y } => func { b0(): print y; y = read }
a print in a box of no value -- func { b0(): box { b0(): print y } } => func { b0(): box { b0(): print y }; box { \
    b0(y): } }
a jump that forwards no value -- func { b0(): br b0(y) } => func { b0(y): br b0(y, y) }
a use of a value of the function before -- mod { b0(): func { b0(x): }; func { b0(): ret x } } => mod { b0(): func \
    { b0(x): ret x }; func { b0(): ret } }
a use of a value of the function behind -- mod { b0(): func { b0(): ret x }; func { b0(x): } } => mod { b0(): func \
    { b0(x): ret x }; func { b0(x): ret x } }";

/// How names are written.
static NAMES: &str = "\
a result of 65 letters -- func { b0(): a23456789_123456789_123456789_123456789_123456789_123456789_12345 = read } \
    => func { b0(): a23456789_123456789_123456789_123456789_123456789_123456789_1234 = read }
an argument of 65 letters -- func { b0(a23456789_123456789_123456789_123456789_123456789_123456789_12345): } => \
    func { b0(a23456789_123456789_123456789_123456789_123456789_123456789_1234): }
a block of 65 letters -- func { b23456789_123456789_123456789_123456789_123456789_123456789_12345(): } => func { \
    b23456789_123456789_123456789_123456789_123456789_123456789_1234(): }
an underscore before a letter -- func { b0(): _a = read } => func { b0(): a_ = read }
an underscore as a result -- func { b0(): _ = read } => func { b0(): A = read }
a digit before a letter -- func { b0(): 1a = read } => func { b0(): a1 = read }
a digit before a block's letter -- func { 0b(): } => func { b0(): }
an underscore as a block -- func { _(): } => func { Z(): }
a blank in a name -- func { b0(): a b = read } => func { b0(): a_b = read }
a dash in a name -- func { b0(): a-b = read } => func { b0(): a_b = read }
a capital in the word of the root -- Func { b0(): } => func { b0(): }
a capital in the word of an operation -- func { b0(): a = Read } => func { b0(): Read = read }
a letter more than the word of an operation -- func { b0(): a = reads } => func { b0(): reads = read }";

/// How numbers are written.
static NUMBERS: &str = "\
one above the greatest -- func { b0(): a = const 9223372036854775808 } => func { b0(): a = const \
    9223372036854775807 }
one below the least -- func { b0(): a = const -9223372036854775809 } => func { b0(): a = const \
    -9223372036854775808 }
above 64 bits -- func { b0(): a = const 18446744073709551616 } => func { b0(): a = const 1844674407370955161 }
forty-four digits -- func { b0(): a = const 99999999999999999999999999999999999999999999 } => func { b0(): a = \
    const 999999999999999999 }
a sign before 0 -- func { b0(): a = const -0 } => func { b0(): a = const 0 }
two zeros -- func { b0(): a = const 00 } => func { b0(): a = const 0 }
0 before 1 -- func { b0(): a = const 01 } => func { b0(): a = const 1 }
0 before 10 -- func { b0(): a = const 010 } => func { b0(): a = const 10 }
0 behind a sign -- func { b0(): a = const -01 } => func { b0(): a = const -1 }
a sign alone -- func { b0(): a = const - } => func { b0(): a = const -9 }
two signs -- func { b0(): a = const --1 } => func { b0(): a = const -1 }
a blank behind a sign -- func { b0(): a = const - 1 } => func { b0(): a = const -1 }
a plus sign -- func { b0(): a = const +1 } => func { b0(): a = const 1 }
two numbers -- func { b0(): a = const 1 2 } => func { b0(): a = const 12 }
an underscore between digits -- func { b0(): a = const 1_2 } => func { b0(): a = const 12 }
a hexadecimal number -- func { b0(): a = const 0x1 } => func { b0(): a = const 1 }
a point -- func { b0(): a = const 1.0 } => func { b0(): a = const 1 }
an exponent -- func { b0(): a = const 1e3 } => func { b0(): a = const 1 }
no number -- func { b0(): a = const } => func { b0(): a = const 0 }
a name for a number -- func { b0(a): b = const a } => func { b0(a): b = const 0 }";

fn check_rule(rt: &impl Abort, alloc: Global, case: &str) {
    let CaseRow {
        name,
        asked: broken,
        want: kept,
    } = row_of(case).expect(rt, "a case");
    assert!(rt;
        printed_line(rt, alloc, broken).as_str() == "unreadable",
        "{name}: readable: {broken}"
    );
    assert!(rt;
        printed_line(rt, alloc, kept).as_str() != "unreadable",
        "{name}: unreadable: {kept}"
    );
}

#[test]
fn rules_broken_and_kept(rt: HostRuntime) {
    for table in [BLOCKS, OPERANDS, EDGES, PLACES, MEANINGS, NAMES, NUMBERS] {
        for case in table.lines() {
            check_rule(&rt, rt.alloc(), case);
        }
    }
}
