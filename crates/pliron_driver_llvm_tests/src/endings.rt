//! How the driver ends on streams, and what it reports. `|` stands for the end of a line.
use crate::lines::{in_one_line, with_lines};
use pliron_driver_instrument::Timeless;
use pliron_driver_llvm::ClosedText;
use pliron_driver_modules::{ModuleOptions, Request, run_on};
use std::alloc::Global;
use std::process::Abort;

/// Names, words and texts; then the status, what is written, and what is reported where all is asked for but times.
static ENDINGS: &str = "\
a sum -- sccp,dce :: define i32 @f() {|  %1 = add i32 2, 3|  ret i32 %1|}| => 0 define i32 @f() {|  ret i32 5|}| => \
    ; --- run 1, after sccp: changed|define i32 @f() {|  %1 = add i32 2, 3|  ret i32 5|}|\
    ; --- run 2, after dce: changed|define i32 @f() {|  ret i32 5|}|\
    verified after each of 2 runs of passes: 2 without a fault|\
    round pass                  operations   blocks arguments    edges|\
    \x20   1 sccp           before          6        2         0        0|\
    \x20     sccp           after           7        2         0        0|\
    \x20     made 1 operations, erased 0, 0 blocks, 0 arguments|\
    \x20   1 dce            before          7        2         0        0|\
    \x20     dce            after           4        2         0        0|\
    \x20     made 0 operations, erased 3, 0 blocks, 0 arguments|\
    class            before      after|constants             2          1|folding               1          0|\
    opaque                0          0|effects               0          0|terminators           1          1|\
    functions             1          1|regions               1          1|\
    functions kept as they are written: 0|changed|checked: what is printed says the same tree|
functions that are kept -- dce :: @g = global i32 1|define void @f() {|  %x =   frobnicate i32 1, 2|  ret void|}|\
    define void @h() {|  frob|}| => 0 @g = global i32 1|define void @f() {|  %x =   frobnicate i32 1, 2|  ret void|}|\
    define void @h() {|  frob|}| => \
    ; --- run 1, after dce: unchanged|@g = global i32 1|define void @f() {|  %x =   frobnicate i32 1, 2|  ret void|}|\
    define void @h() {|  frob|}|verified after each of 1 runs of passes: 1 without a fault|\
    round pass                  operations   blocks arguments    edges|\
    \x20   1 dce            before          1        1         0        0|\
    \x20     dce            after           1        1         0        0|\
    \x20     made 0 operations, erased 0, 0 blocks, 0 arguments|\
    class            before      after|constants             0          0|folding               0          0|\
    opaque                0          0|effects               0          0|terminators           0          0|\
    functions             0          0|regions               1          1|\
    functions kept as they are written: 2|t:3:3: kept for an unknown word|t:7:3: kept for an unknown word|\
    unchanged|checked: what is printed says the same tree|
a function without its end -- dce :: define void @f() {|  ret void| => 2  => \
    verified after each of 0 runs of passes: 0 without a fault|\
    round pass                  operations   blocks arguments    edges|\
    t:3:1: error: expected `}`|
no such pass -- licm :: @g = global i32 1| => 2  => error: no such passes: licm: at byte 1: expected \
    `sccp`, `dce`, `simplify-cfg`, `cse`, `canonicalize`, `combine` or `thread-edges`|";

// The status, what is written and what is reported.
fn ending(rt: &impl Abort, alloc: Global, word: &str, text: &str) -> String {
    let request = Request {
        pipeline: word,
        name: "t",
        options: ModuleOptions {
            counts: true,
            verifies: true,
            times: false,
            checks: true,
        },
        prints_all: true,
    };
    let lines = with_lines(alloc, text).expect(rt, "memory");
    let mut input = lines.as_bytes();
    let mut output = Vec::new(alloc);
    let mut errors = Vec::new(alloc);
    let status = run_on::<ClosedText, _, _, _, Timeless>(
        alloc,
        &request,
        &mut input,
        &mut output,
        &mut errors,
        Timeless,
    );
    let output = in_one_line(alloc, &output).expect(rt, "memory");
    let report = in_one_line(alloc, &errors).expect(rt, "memory");
    format!(in alloc; "{status} {output} => {report}").expect(rt, "memory")
}

#[test]
fn ends(rt: HostRuntime) {
    for case in ENDINGS.lines() {
        let (name, rest) = case.split_once(" -- ").expect(&rt, "a name");
        let (word, rest) = rest.split_once(" :: ").expect(&rt, "a word");
        let (text, wanted) = rest.split_once(" => ").expect(&rt, "an ending");
        let found = ending(&rt, rt.alloc(), word, text);
        assert!(rt; found.as_str() == wanted, "{name}: {found}");
    }
}
