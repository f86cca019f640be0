//! Blocks with many arguments that feed one another and are removed one by one: the first, the last, the
//! second, the last but one, and so on. What is left was worked out by hand, and is the same for every number
//! of arguments.
ghost use Rattle.std.specs.Prelude.{◌<◌};

use super::texts::DEAD_CODE;
use crate::texts::check;
use pliron_test_cases::cases::{Case, CaseRow, row_of};
use std::alloc::Global;
use std::process::Abort;

// `%front%` and `%back%` are the two halves of the arguments, `%to_front%` and `%to_back%` what is forwarded to them,
// and `%ones%` is `o` for each of a half. `%others%` and `%more%` are arguments that nothing uses.
static WIDE: &str = "\
all go -- func { b0(): o = const 1; br b1(%ones%, %ones%); b1(%front%, %back%): br b1(%to_front%, %to_back%) } => \
    func { b0(): br b1(); b1(): br b1() }
three stay -- func { b0(): o = const 1; br b1(o, %ones%, o, %ones%, o); b1(x, %front%, y, %back%, z): print x; \
    print y; print z; br b1(y, %to_front%, z, %to_back%, x) } => func { b0(): v0 = const 1; br b1(v0, v0, v0); \
    b1(v1, v2, v3): print v1; print v2; print v3; br b1(v2, v3, v1) }
all go, along both edges of a branch -- func { b0(): o = const 1; br b1(%ones%, %ones%); b1(%front%, %back%): r = \
    read; cbr r b1(%to_front%, %to_back%) b1(%to_front%, %to_back%) } => func { b0(): br b1(); b1(): v0 = read; \
    cbr v0 b1() b1() }
three stay, along both edges of a branch -- func { b0(): o = const 1; br b1(o, %ones%, o, %ones%, o); b1(x, \
    %front%, y, %back%, z): print x; print y; print z; cbr x b1(y, %to_front%, z, %to_back%, x) b1(o, %to_front%, \
    y, %to_back%, z) } => func { b0(): v0 = const 1; br b1(v0, v0, v0); b1(v1, v2, v3): print v1; print v2; print \
    v3; cbr v1 b1(v2, v3, v1) b1(v0, v2, v3) }
the first stays, and others go elsewhere -- func { b0(): o = const 1; br b1(o, %ones%, %ones%); b1(x, %front%, \
    %back%): print x; cbr x b1(x, %to_front%, %to_back%) b2(x, %to_front%, %to_back%, x); b2(p, %others%, %more%, \
    q): ret q } => func { b0(): v0 = const 1; br b1(v0); b1(v1): print v1; cbr v1 b1(v1) b2(v1); b2(v2): ret v2 }
all go, with jumps from unreached blocks -- func { b0(): o = const 1; br b1(%ones%, %ones%); b1(%front%, %back%): \
    br b1(%to_front%, %to_back%); b2(): br b1(%ones%, o); b3(): br b1() } => func { b0(): br b1(); b1(): br b1(); \
    b2(): br b1(); b3(): br b1() }
all go, in a box -- func { b0(): box { b0(): o = const 1; br b1(%ones%, %ones%); b1(%front%, %back%): br \
    b1(%to_front%, %to_back%) }; ret } => func { b0(): ret }
all go, with a jump in a box -- func { b0(): o = const 1; br b1(%ones%, %ones%); b1(%front%, %back%): box { b0(): \
    br b1(%to_front%, %to_back%); b1(%others%, %more%): ret }; br b1(%to_front%, %to_back%) } => func { b0(): br \
    b1(); b1(): br b1() }";

// How many arguments are in a half. A list of 64 is a short one, and one of 66 has an index.
static HALVES: [u8; 4] = [3, 32, 33, 150];

// The number of the value that a word names at this place, if it is not `o`.
fn number_at(word: &str, half: usize, place: usize) -> Option<usize>
    requires small { half < 256 }
    requires place { place < half }
{
    match word {
        "front" | "others" => Some(place),
        "back" | "more" => Some(half + place),
        "to_front" => Some(2 * half - 1 - place),
        "to_back" if place > 0 => Some(half - place),
        _ => None,
    }
}

fn push_value(rt: &impl Abort, text: &mut String, word: &str, half: usize, place: usize)
    requires small { half < 256 }
    requires place { place < half }
{
    let letter = if matches!(word, "others" | "more") {
        "c"
    } else {
        "a"
    };
    match number_at(word, half, place) {
        Some(number) => write!(text, "{letter}{number}").expect(rt, "memory"),
        None => text.push_str("o").expect(rt, "memory"),
    }
}

// The values that a word stands for.
fn push_values(rt: &impl Abort, text: &mut String, word: &str, half: usize)
    requires { half < 256 }
{
    for place in 0..half {
        if place > 0 {
            text.push_str(", ").expect(rt, "memory");
        }
        push_value(rt, text, word, half, place);
    }
}

fn is_word(piece: &str) -> bool {
    matches!(
        piece,
        "ones" | "front" | "back" | "to_front" | "to_back" | "others" | "more"
    )
}

// The case, with values in place of its words.
fn fill_case(rt: &impl Abort, alloc: Global, case: &str, half: usize) -> String
    requires { half < 256 }
{
    let mut text = String::new(alloc);
    for piece in case.split('%') {
        if is_word(piece) {
            push_values(rt, &mut text, piece, half);
        } else {
            text.push_str(piece).expect(rt, "memory");
        }
    }
    text
}

fn check_filled(rt: &impl Abort, alloc: Global, case: &str, half: usize)
    requires { half < 256 }
{
    let CaseRow { name, asked, want } = row_of(case).expect(rt, "a case");
    let text = fill_case(rt, alloc, asked, half);
    let case = Case {
        name,
        answer: "C",
        text: text.as_str(),
        after: want,
    };
    check(rt, alloc, DEAD_CODE, &case)
}

fn check_half(rt: &impl Abort, alloc: Global, half: u8) {
    for case in WIDE.lines() {
        check_filled(rt, alloc, case, usize::from(half));
    }
}

#[test]
fn many_arguments(rt: HostRuntime) {
    for half in HALVES {
        check_half(&rt, rt.alloc(), half);
    }
}
