//! Modules as they are after each pass. `|` stands for the end of a line.
use crate::lines::{in_one_line, with_lines};
use pliron_dialect_mlir::{AnyMeaning, Mlir};
use pliron_driver_mlir::{GenericForm, print_after_each, read_plan};
use std::alloc::Global;
use std::process::Abort;

type Form = GenericForm<Mlir<AnyMeaning>>;

/// Names, words and texts; then what is written after each pass.
static TRACES: &str = "\
a word -- dce :: m =>
no passes --  :: \"m\"() : () -> () =>
one pass on a function -- nested:dce :: \"m\"() ({|  \"func.func\"() <{sym_name = \"f\"}> ({|    %0 = \
    \"arith.constant\"() <{value = 1 : i32}> : () -> i32|    \"func.return\"() : () -> ()|  }) : () -> ()|}) : () \
    -> () => // --- run 1, after dce: changed|\"m\"() ({|  \"func.func\"() <{sym_name = \"f\"}> \
    ({|    \"func.return\"() : () -> ()|  }) : () -> ()|}) : () -> ()|
two rounds of two passes -- repeat:3:sccp,dce :: \"m\"() ({|  %0 = \"arith.constant\"() <{value = 1 : i32}> : () \
    -> i32|}) : () -> () => // --- run 1, after sccp: unchanged|\"m\"() ({|  %0 = \"arith.constant\"() <{value = 1 \
    : i32}> : () -> i32|}) : () -> ()|// --- run 2, after dce: changed|\"m\"() ({|^bb0:|}) : () -> ()|// --- run \
    3, after sccp: unchanged|\"m\"() ({|^bb0:|}) : () -> ()|// --- run 4, after dce: unchanged|\"m\"() ({|^bb0:|}) \
    : () -> ()|";

fn trace_of(rt: &impl Abort, alloc: Global, word: &str, text: &str) -> String {
    let lines = with_lines(alloc, text).expect(rt, "memory");
    let Ok(plan) = read_plan(alloc, word) else {
        panic!(rt; "a word")
    };
    let trace = print_after_each::<Form>(alloc, lines.as_bytes(), &plan).expect(rt, "memory");
    in_one_line(alloc, &trace).expect(rt, "memory")
}

#[test]
fn after_each_pass(rt: HostRuntime) {
    for case in TRACES.lines() {
        let (name, rest) = case.split_once(" -- ").expect(&rt, "a name");
        let (word, rest) = rest.split_once(" :: ").expect(&rt, "a word");
        let (text, wanted) = rest.split_once(" =>").expect(&rt, "a trace");
        let line = trace_of(&rt, rt.alloc(), word, text);
        assert!(&rt; line.as_str() == wanted.trim_start(), "{name}: {line}");
    }
}
