//! Modules as they are printed again. `|` stands for the end of a line.
use crate::lines::{in_one_line, with_lines};
use pliron_core::Context;
use pliron_dialect_mlir::{AnyMeaning, Mlir};
use pliron_text_mlir_printer::print_module;
use pliron_text_mlir_reader::read_module;
use std::alloc::Global;
use std::process::Abort;

fn expect_printed(rt: &impl Abort, alloc: Global, case: &str, ctx: &mut Context) {
    let (name, row) = case.split_once(" -- ").expect(rt, "a name");
    let (text, wanted) = row.split_once(" => ").expect(rt, "a case");
    let lines = with_lines(alloc, text).expect(rt, "memory");
    let module = read_module::<Mlir<AnyMeaning>>(alloc, lines.as_bytes(), ctx);
    let module = module.expect(rt, "a module");
    let printed = print_module(alloc, module.root, &module.sheet, ctx).expect(rt, "memory");
    let line = in_one_line(alloc, &printed).expect(rt, "memory");
    assert!(rt; line.as_str() == wanted, "{name}: {line}");
}

/// Names, modules, and how they are printed.
static PRINTED: &str = "\
an operation -- \"m\"() : () -> () => \"m\"() : () -> ()|
attributes -- \"m\"() {a, b = #x<\"}>\">} : () -> () => \"m\"() {a, b = #x<\"}>\">} : () -> ()|
empty properties, and a region without blocks -- \"m\"() <{}> ({}) : () -> () => \"m\"() <{}> ({|}) : () -> ()|
a block without operations, and a block without a name -- \"m\"() ({|^x:|}, {|  \"a\"() : () -> ()|}) : () -> () \
    => \"m\"() ({|^bb0:|}, {|  \"a\"() : () -> ()|}) : () -> ()|
results, arguments, types and locations -- %r:2 = \"a\"() ({| // words|^x(%z: i32 loc(\"a\"), %y : \
    !llvm.struct<\"a b\", (i32)>):|  \"b\"(%y, %r#1)[^x] : (!llvm.struct<\"a b\", (i32)>, i64) -> ()|}) : () -> \
    (i32, i64) loc(unknown) => %0, %1 = \"a\"() ({|^bb0(%2: i32 loc(\"a\"), %3: !llvm.struct<\"a b\", \
    (i32)>):|  \"b\"(%3, %1)[^bb0] : (!llvm.struct<\"a b\", (i32)>, i64) -> ()|}) : () -> (i32, i64) loc(unknown)|
a branch with values along one edge -- \"m\"() ({|^x(%c: i1, %a: i32):|  \"llvm.cond_br\"(%c, %a)[^y, ^z] <{k, \
    operandSegmentSizes = array<i32: 1, 1, 0>}> : (i1, i32) -> ()|^y(%b: i32):|  \"e\"() : () -> ()|^z:|  \"e\"() \
    : () -> ()|}) : () -> () => \"m\"() ({|^bb0(%0: i1, %1: i32):|  \"llvm.cond_br\"(%0, %1)[^bb1, ^bb2] <{k, \
    operandSegmentSizes = array<i32: 1, 1, 0>}> : (i1, i32) -> ()|^bb1(%2: i32):|  \"e\"() : () -> \
    ()|^bb2:|  \"e\"() : () -> ()|}) : () -> ()|
an operation that is kept as text -- \"builtin.module\"() ({|  \"llvm.func\"() <{f}> ({|    \"llvm.blocktag\"() \
    <{id = 1}> : () -> () // words|  }) : () -> ()|}) : () -> () => \"builtin.module\"() ({|  \"llvm.func\"() \
    <{f}> ({|    \"llvm.blocktag\"() <{id = 1}> : () -> () // words|  }) : () -> ()|}) : () -> ()|
a function that is kept as text for successors and regions -- \"builtin.module\"() ({|  \"func.func\"() <{f}> ({|  \
    ^a:|    \"x.each\"()[^a] <{k}> ({|      \"llvm.unreachable\"() : () -> ()|    }) : () -> () // words|  }) : () -> \
    ()|}) : () -> () => \"builtin.module\"() ({|  \"func.func\"() <{f}> ({|  ^a:|    \"x.each\"()[^a] <{k}> \
    ({|      \"llvm.unreachable\"() : () -> ()|    }) : () -> () // words|  }) : () -> ()|}) : () -> ()|
aliases and resources -- #a = \"x\"|!b = i32|\"m\"() {v = #a} : () -> ()|{-# r: {} #-} => #a = \"x\"|!b = \
    i32|\"m\"() {v = #a} : () -> ()|{-# r: {} #-}";

#[test]
fn prints_modules(rt: HostRuntime) {
    for case in PRINTED.lines() {
        let mut ctx = Context::new(rt.alloc());
        expect_printed(&rt, rt.alloc(), case, &mut ctx);
    }
}
