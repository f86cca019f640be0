//! Operations that leave one operand as it is or give one number, by what LLVM and MLIR make of them.
use crate::integers::{datum, flags, kind, predicate, width};
use crate::rows::{compare, division, identities, index, logic, roundings, sides, wrapping};
use pliron_dialect::{Identity, Roles};
use pliron_dialect_mlir::{Class, binary_head, cast_head, class_named, compare_head};
use std::alloc::Global;

/// What is found for an operation of an x: the place of x, a number, or none.
#[derive(Clone, Copy, PartialEq, Eq)]
enum Finding {
    Place(usize),
    Number(i128),
    Nothing,
}

// The number that a word names, and none of `x`.
fn known(width: u32, word: &str) -> Option<Option<i128>> {
    if word == "x" {
        Some(None)
    } else {
        Some(Some(datum(width, word)?))
    }
}

// The place of the operand that is left.
fn left(identity: Identity, a: Option<i128>, b: Option<i128>) -> Option<usize> {
    if b.is_some() && b == identity.neutral {
        Some(0)
    } else if identity.either_side && a.is_some() && a == identity.neutral {
        Some(1)
    } else if identity.idempotent && a == b {
        Some(0)
    } else {
        None
    }
}

// The number that is given.
fn given(identity: Identity, a: Option<i128>, b: Option<i128>) -> Option<i128> {
    if let Some(absorption) = identity.absorbing {
        let operand = Some(absorption.operand);
        if b == operand || (identity.either_side && a == operand) {
            return Some(absorption.result);
        }
    }
    if a == b { identity.equal } else { None }
}

// What is found for an operation of these operands, of which an x is none.
fn reported(identity: Identity, a: Option<i128>, b: Option<i128>) -> Finding {
    match left(identity, a, b) {
        Some(place) => Finding::Place(place),
        None => match given(identity, a, b) {
            Some(number) => Finding::Number(number),
            None => Finding::Nothing,
        },
    }
}

// What the table says of an operation of two.
fn identity_of(alloc: Global, class: Class, how: &str, width: u32) -> Option<Identity> {
    match class {
        Class::Binary(operator) => {
            let head = binary_head(alloc, operator, width, flags(how), 3).ok()?;
            Some(kind(class).identity(&head))
        }
        Class::Compare => {
            let head = compare_head(alloc, width, predicate(how)?, 3).ok()?;
            Some(kind(class).identity(&head))
        }
        _ => None,
    }
}

// What the table says of an operation, where the words can be read.
fn answer_of_row(alloc: Global, words: &[&str]) -> Option<Finding> {
    let [name, how, from, a, b] = words else {
        return None;
    };
    let class = class_named(name.as_bytes())?;
    let width_from = width(from)?;
    if let Class::Cast(cast) = class {
        let head = cast_head(alloc, cast, width_from, width(a)?, flags(how), 3).ok()?;
        let only = kind(class).identity(&head).only;
        return Some(if only {
            Finding::Place(0)
        } else {
            Finding::Nothing
        });
    }
    let identity = identity_of(alloc, class, how, width_from)?;
    Some(reported(identity, known(width_from, a)?, known(width_from, b)?))
}

// What the row wants of an operation whose result has this width.
fn wanted(width: u32, answer: &str) -> Option<Finding> {
    match answer.strip_prefix("gives ") {
        Some(bits) => Some(Finding::Number(datum(width, bits)?)),
        None => match answer.parse::<usize>() {
            Ok(place) => Some(Finding::Place(place)),
            Err(_) => Some(Finding::Nothing),
        },
    }
}

// The width of the result of an operation.
fn result_width(words: &[&str]) -> Option<u32> {
    let [name, _, from, _, _] = words else {
        return None;
    };
    match class_named(name.as_bytes())? {
        Class::Compare => Some(1),
        _ => width(from),
    }
}

// Whether the table's answer is that of the row, where both can be read.
fn agrees_on(alloc: Global, words: &[&str], answer: &str) -> Option<bool> {
    let reported = answer_of_row(alloc, words)?;
    Some(reported == wanted(result_width(words)?, answer)?)
}

// Whether the table's answer is that of the row.
fn agrees(alloc: Global, row: &str) -> bool {
    let Some((asked, answer)) = sides(row) else {
        return false;
    };
    let Ok(words) = asked.split(' ').collect::<Vec<&str>>(alloc) else {
        return false;
    };
    agrees_on(alloc, &words, answer) == Some(true)
}

#[test]
fn answers_as_llvm(rt: HostRuntime) {
    let alloc = rt.alloc();
    let failing = identities::ROWS.lines().find(|row| !agrees(alloc, row));
    assert_eq!(rt; failing, None);
}

// Whether what is found for numbers is what the row says that they give, where both can be read.
fn computes(alloc: Global, words: &[&str], answer: &str) -> Option<bool> {
    let [name, how, from, a, b] = words else {
        return None;
    };
    let width_from = width(from)?;
    let (a, b) = (known(width_from, a)?, known(width_from, b)?);
    let identity = identity_of(alloc, class_named(name.as_bytes())?, how, width_from)?;
    let number = match reported(identity, a, b) {
        Finding::Place(0) => a,
        Finding::Place(_) => b,
        Finding::Number(number) => Some(number),
        Finding::Nothing => return Some(true),
    };
    Some(number == datum(result_width(words)?, answer))
}

// Whether what is found for numbers is what the row says that they give.
fn is_computed(alloc: Global, row: &str) -> bool {
    let Some((asked, answer)) = sides(row) else {
        return false;
    };
    let Ok(words) = asked.split(' ').collect::<Vec<&str>>(alloc) else {
        return false;
    };
    computes(alloc, &words, answer) == Some(true)
}

#[test]
fn answers_what_is_computed(rt: HostRuntime) {
    let alloc = rt.alloc();
    for rows in [
        wrapping::ROWS,
        division::ROWS,
        logic::ROWS,
        compare::ROWS,
        index::ROWS,
        roundings::ROWS,
    ] {
        let failing = rows.lines().find(|row| !is_computed(alloc, row));
        assert_eq!(&rt; failing, None);
    }
}
