//! Branches, by what LLVM leaves of them.
use crate::integers::{kind, width};
use crate::rows::{edges, sides};
use pliron_dialect::Roles;
use pliron_dialect_mlir::{
    Class, branch_head, class_named, integer_of, number, plain_head, switch_head,
};
use std::alloc::Global;

// The edge that a switch takes. The form has the number of the value, and is no case.
fn switched(alloc: Global, width: u32, value: u64, cases: &[u64]) -> Option<usize> {
    if width > 65 {
        return None;
    }
    let mut counts = Vec::new(alloc);
    counts.push(0).ok()?;
    for _ in cases {
        counts.push(0).ok()?;
    }
    let form = usize::try_from(value).ok()?;
    let head = switch_head(alloc, &counts, width, cases, form).ok()?;
    kind(Class::Switch).choose_edge(&head, counts.len(), number(width, value))
}

fn branched(alloc: Global, value: u64) -> Option<usize> {
    let head = branch_head(alloc, 0, 0, 1).ok()?;
    kind(Class::Branch).choose_edge(&head, 2, number(1, value))
}

fn selected(value: u64) -> Option<usize> {
    match kind(Class::Select).picks(number(1, value))? {
        true => Some(1),
        false => Some(2),
    }
}

fn taken(alloc: Global, asked: &str) -> Option<usize> {
    let words = asked.split(' ').collect::<Vec<&str>>(alloc).ok()?;
    let class = class_named(words.get(0)?.as_bytes())?;
    let width = width(words.get(1)?)?;
    let value = words.get(2)?.parse().ok()?;
    match class {
        Class::Switch => {
            let mut cases = Vec::new(alloc);
            for word in words.iter().skip(3) {
                cases.push(word.parse().ok()?).ok()?;
            }
            switched(alloc, width, value, &cases)
        }
        Class::Branch => branched(alloc, value),
        Class::Select => selected(value),
        _ => None,
    }
}

fn agrees(alloc: Global, row: &str) -> bool {
    match sides(row) {
        Some((asked, answer)) => match answer.parse::<usize>() {
            Ok(edge) => taken(alloc, asked) == Some(edge),
            Err(_) => false,
        },
        None => false,
    }
}

#[test]
fn branches_as_llvm(rt: HostRuntime) {
    let alloc = rt.alloc();
    let failing = edges::ROWS.lines().find(|row| !agrees(alloc, row));
    assert_eq!(rt; failing, None);
}
