//! Calls on lists of no, one, two, three and ten items.
ghost use Rattle.std.specs.Prelude.{◌<◌, length};

use crate::tables::{Table, check_table, number};
use pliron_core::InlineList;
use std::alloc::Global;
use std::process::Abort;

// A name, the calls on a new list, in turn, and its items in the end. A number is pushed; `set:4=7` writes 7 at index
// 4; `remove:4` and `pop` take away; `extend:3` adds another list, of 0, 1 and 2. By hand.
static CALLS: &str = "\
no calls -- =>
pop of none -- pop =>
push of one -- 1 => 1
pop of one -- 1 pop =>
pops of one, then a push -- 1 pop pop 2 => 2
set of one -- 1 set:0=7 => 7
removal of one -- 1 remove:0 =>
removal of one, then pushes -- 1 remove:0 2 3 => 2 3
push of two -- 1 2 => 1 2
pop of two -- 1 2 pop => 1
pop of two, then a push -- 1 2 pop 3 => 1 3
set of the first of two -- 1 2 set:0=7 => 7 2
set of the last of two -- 1 2 set:1=7 => 1 7
removal of the first of two -- 1 2 remove:0 => 2
removal of the last of two -- 1 2 remove:1 => 1
removal of both -- 1 2 remove:0 remove:0 =>
push of three -- 1 2 3 => 1 2 3
pop of three -- 1 2 3 pop => 1 2
pops of three -- 1 2 3 pop pop pop pop =>
pops of three, then pushes -- 1 2 3 pop pop pop 4 5 => 4 5
set of the first of three -- 1 2 3 set:0=7 => 7 2 3
set of the last of three -- 1 2 3 set:2=7 => 1 2 7
removal of the first of three -- 1 2 3 remove:0 => 2 3
removal of the second of three -- 1 2 3 remove:1 => 1 3
removal of the last of three, then a push -- 1 2 3 remove:2 4 => 1 2 4
push of ten -- 1 2 3 4 5 6 7 8 9 10 => 1 2 3 4 5 6 7 8 9 10
pop, removal and set of ten -- 1 2 3 4 5 6 7 8 9 10 pop remove:4 set:0=0 => 0 2 3 4 6 7 8 9
none by none -- extend:0 =>
none by one -- extend:1 => 0
none by two -- extend:2 => 0 1
none by three -- extend:3 => 0 1 2
none by ten -- extend:10 => 0 1 2 3 4 5 6 7 8 9
one by none -- 5 extend:0 => 5
one by one -- 5 extend:1 => 5 0
one by two -- 5 extend:2 => 5 0 1
one by three -- 5 extend:3 => 5 0 1 2
two by none -- 5 6 extend:0 => 5 6
two by one -- 5 6 extend:1 => 5 6 0
two by two -- 5 6 extend:2 => 5 6 0 1
three by one -- 5 6 7 extend:1 => 5 6 7 0
three by two, then by ten -- 5 6 7 extend:2 extend:10 => 5 6 7 0 1 0 1 2 3 4 5 6 7 8 9";

// The item that a word is.
fn item_of(rt: &impl Abort, word: &str) -> u32 {
    u32::try_from(number(rt, word)).ok().expect(rt, "an item")
}

fn index(rt: &impl Abort, row: &InlineList<u32>, word: &str) -> usize
    ensures { result < length row.now }
{
    let i = number(rt, word);
    assert!(rt; i < row.len());
    i
}

fn set(rt: &impl Abort, row: &mut InlineList<u32>, place: &str) {
    let (at, item) = place.split_once("=").expect(rt, "an index and an item");
    let i = index(rt, row, at);
    row.set(i, item_of(rt, item));
}

fn remove(rt: &impl Abort, row: &mut InlineList<u32>, at: &str) {
    let i = index(rt, row, at);
    row.remove(i);
}

fn push(rt: &impl Abort, row: &mut InlineList<u32>, item: u32) {
    row.push(item).expect(rt, "memory");
}

fn extend_by(rt: &impl Abort, alloc: Global, row: &mut InlineList<u32>, count: u32) {
    let mut more = InlineList::new(alloc);
    for item in 0..count {
        push(rt, &mut more, item);
    }
    row.extend(&more).expect(rt, "memory");
}

fn call(rt: &impl Abort, alloc: Global, row: &mut InlineList<u32>, word: &str) {
    match word.split_once(":") {
        Some(("set", place)) => set(rt, row, place),
        Some(("remove", at)) => remove(rt, row, at),
        Some((_, count)) => extend_by(rt, alloc, row, item_of(rt, count)),
        None if word == "pop" => row.pop(),
        None => push(rt, row, item_of(rt, word)),
    }
}

// The last item, if there is one.
fn check_last(rt: &impl Abort, row: &InlineList<u32>) {
    let count = row.len();
    assert_eq!(rt; row.is_empty(), count == 0);
    let last = if count == 0 {
        None
    } else {
        Some(row.get(count - 1))
    };
    assert_eq!(rt; row.last(), last);
}

// The items, a blank before each.
fn items(rt: &impl Abort, alloc: Global, row: &InlineList<u32>) -> String {
    let mut text = String::new(alloc);
    for i in 0..row.len() {
        write!(text, " {}", row.get(i)).expect(rt, "memory");
    }
    text
}

// The items in the end.
pub fn left(rt: &impl Abort, alloc: Global, calls: &str) -> String {
    let mut row = InlineList::new(alloc);
    for word in calls.split_whitespace() {
        call(rt, alloc, &mut row, word);
    }
    check_last(rt, &row);
    items(rt, alloc, &row)
}

#[test]
fn calls_on_rows(rt: HostRuntime) {
    check_table(&rt, rt.alloc(), Table::Rows, CALLS)
}
