//! Operands that come to places in any order, with others pushed and removed in between, and arguments that come.

use crate::tables::{Table, check_table};

// A name; how many values the operation uses at first, each once, in order; then `V@I` for value V that comes to
// index I, `+` and the value that is pushed, or the place of the operand that is removed; and the values that it
// uses in the end. Made by `tools/expected` over plain lists.
static INSERTIONS: &str = "\
the only one -- 1 0 0@0 => 0
into an operation without operands, then before and behind -- 3 0 0 0 0@0 1@0 2@2 => 1 0 2
one at each place of three -- 3 2@0 0@2 1@4 2@6 => 2 0 0 1 1 2 2
again and again at the front -- 4 3@0 2@0 1@0 0@0 => 0 1 2 3 0 1 2 3
again and again at the end -- 2 0@2 1@3 0@4 => 0 1 0 1 0
where one went -- 5 2 2@2 => 0 1 2 3 4
before and behind where one went -- 6 3 0@1 5@6 => 0 0 1 2 4 5 5
far from where two went -- 8 6 6 7@0 0@4 => 7 0 1 2 0 3 4 5
between removals, in a row -- 4 0 3@1 2 0@0 1 1@3 => 0 3 3 1
with pushes in between -- 3 +2 1@1 +0 0@5 0 2@2 => 1 1 2 2 2 0 0
the same value at each place -- 2 0@0 0@1 0@2 0@3 0@4 => 0 0 0 0 0 0 1";

// A name; how many arguments the block has at first; then `+` for one more, or the place of the argument that is
// removed; and those that are left in the end, by the order in which they came. Made by `tools/expected` over plain
// lists.
static PUSHES: &str = "\
the first of a block without arguments -- 1 0 + => 1
three behind two -- 2 + + + => 0 1 2 3 4
where one went -- 3 1 + => 0 2 3
between removals -- 4 0 + 3 + 0 => 2 3 5
all go, and others come -- 2 1 0 + + 0 => 3";

#[test]
fn inserts_operands_at_any_place(rt: HostRuntime) {
    check_table(&rt, rt.alloc(), Table::Operands, INSERTIONS)
}

#[test]
fn pushes_arguments(rt: HostRuntime) {
    check_table(&rt, rt.alloc(), Table::Arguments, PUSHES)
}
