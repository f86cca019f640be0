//! Integers, by the answers of LLVM and MLIR.
use crate::rows::{casts, compare, division, index, logic, roundings, shifts, sides, wrapping};
use pliron_bits::{Flags, Predicate};
use pliron_core::Head;
use pliron_dialect::Roles;
use pliron_dialect_mlir::{
    AnyMeaning, Class, MlirKind, binary_head, cast_head, class_named, compare_head, integer_of,
    number,
};
use std::alloc::Global;
use std::marker::PhantomData;

// The width that a word names.
pub fn width(word: &str) -> Option<u32> {
    if word == "index" {
        Some(65)
    } else {
        word.strip_prefix("i")?.parse().ok()
    }
}

// The flags that a word names.
pub fn flags(word: &str) -> Flags {
    Flags {
        no_signed_wrap: word.contains("nsw"),
        no_unsigned_wrap: word.contains("nuw"),
        exact: word == "exact",
        disjoint: word == "disjoint",
        nonnegative: word == "nneg",
    }
}

// The predicate that a word names.
pub fn predicate(word: &str) -> Option<Predicate> {
    match word {
        "eq" => Some(Predicate::Equal),
        "ne" => Some(Predicate::NotEqual),
        "slt" => Some(Predicate::SignedLess),
        "sle" => Some(Predicate::SignedLessEqual),
        "sgt" => Some(Predicate::SignedGreater),
        "sge" => Some(Predicate::SignedGreaterEqual),
        "ult" => Some(Predicate::UnsignedLess),
        "ule" => Some(Predicate::UnsignedLessEqual),
        "ugt" => Some(Predicate::UnsignedGreater),
        "uge" => Some(Predicate::UnsignedGreaterEqual),
        _ => None,
    }
}

// The datum of an integer of this width that a word names.
pub fn datum(width: u32, bits: &str) -> Option<i128> {
    if width > 65 {
        return None;
    }
    Some(number(width, bits.parse().ok()?))
}

pub fn kind(class: Class) -> MlirKind<AnyMeaning> {
    MlirKind {
        class,
        meaning: PhantomData,
    }
}

// What the table says of two operands.
fn of_two(class: Class, head: &Head, width: u32, a: &str, b: &str) -> Option<Option<i128>> {
    let numbers = [Some(datum(width, a)?), Some(datum(width, b)?)];
    Some(kind(class).fold_numbers(head, &numbers))
}

// What the table says of an operation, where the words can be read.
fn fold_row(alloc: Global, words: &[&str]) -> Option<Option<i128>> {
    let [name, how, from, a, b] = words else {
        return None;
    };
    let class = class_named(name.as_bytes())?;
    let width_from = width(from)?;
    match class {
        Class::Binary(operator) => {
            let head = binary_head(alloc, operator, width_from, flags(how), 3).ok()?;
            of_two(class, &head, width_from, a, b)
        }
        Class::Compare => {
            let head = compare_head(alloc, width_from, predicate(how)?, 3).ok()?;
            of_two(class, &head, width_from, a, b)
        }
        Class::Cast(cast) => {
            let head = cast_head(alloc, cast, width_from, width(a)?, flags(how), 3).ok()?;
            Some(kind(class).fold_numbers(&head, &[Some(datum(width_from, b)?)]))
        }
        _ => None,
    }
}

// The bits that the row wants, and none where it wants none.
fn wanted(word: &str) -> Option<u64> {
    word.parse().ok()
}

// Whether the table's answer is that of the row.
fn agrees(alloc: Global, row: &str) -> bool {
    let Some((asked, answer)) = sides(row) else {
        return false;
    };
    let Ok(words) = asked.split(' ').collect::<Vec<&str>>(alloc) else {
        return false;
    };
    match fold_row(alloc, &words) {
        Some(Some(datum)) => match integer_of(datum) {
            Some((_, bits)) => wanted(answer) == Some(bits),
            None => false,
        },
        Some(None) => answer == "none",
        None => false,
    }
}

// The rows on which the table's answer is another.
fn failing<'t>(alloc: Global, rows: &'t str) -> Option<&'t str> {
    rows.lines().find(|row| !agrees(alloc, row))
}

#[test]
fn computes_as_llvm(rt: HostRuntime) {
    let alloc = rt.alloc();
    assert_eq!(rt;
        failing(alloc, wrapping::ROWS),
        None,
        "sums, differences, products"
    );
    assert_eq!(rt;
        failing(alloc, division::ROWS),
        None,
        "quotients, remainders"
    );
    assert_eq!(rt; failing(alloc, shifts::ROWS), None, "shifts");
    assert_eq!(rt; failing(alloc, logic::ROWS), None, "bits, minima, maxima");
    assert_eq!(rt; failing(alloc, compare::ROWS), None, "comparisons");
    assert_eq!(rt; failing(alloc, casts::ROWS), None, "casts");
    assert_eq!(rt; failing(alloc, index::ROWS), None, "index");
    assert_eq!(rt;
        failing(alloc, roundings::ROWS),
        None,
        "quotients that round up or down"
    );
}
