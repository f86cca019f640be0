//! Broken modules, with line, column and what was expected there. `|` stands for the end of a line.
use crate::lines::with_lines;
use pliron_core::Context;
use pliron_dialect_mlir::{AnyMeaning, Mlir};
use pliron_text_mlir_reader::{Fault, position_of, read_module};
use std::alloc::Global;
use std::process::Abort;

// The place where the text is broken, and what was expected there.
fn fault_of(rt: &impl Abort, alloc: Global, text: &str, ctx: &mut Context) -> String {
    match read_module::<Mlir<AnyMeaning>>(alloc, text.as_bytes(), ctx) {
        Err(Fault::Expected(at, expected)) => {
            let place = position_of(text.as_bytes(), at);
            let (line, column) = (place.line, place.column);
            format!(in alloc; "{line}:{column} {expected}").expect(rt, "memory")
        }
        Err(_) => format!(in alloc; "memory").expect(rt, "memory"),
        Ok(_) => format!(in alloc; "read").expect(rt, "memory"),
    }
}

fn expect_broken(rt: &impl Abort, alloc: Global, case: &str, ctx: &mut Context) {
    let (name, row) = case.split_once(" -- ").expect(rt, "a name");
    let (text, wanted) = row.split_once(" => ").expect(rt, "a case");
    let lines = with_lines(alloc, text).expect(rt, "memory");
    let found = fault_of(rt, alloc, lines.as_str(), ctx);
    assert!(rt; found.as_str() == wanted, "{name}: {found}");
}

/// Names and broken modules, and line, column and what was expected there.
static BROKEN: &str = "\
a comment alone -- // words => 1:9 the name of an operation in quotes; print with --mlir-print-op-generic
the pretty form of a module -- module {|} => 1:1 the name of an operation in quotes; print with \
    --mlir-print-op-generic
the pretty form of a function --   func.func @f() {|} => 1:3 the name of an operation in quotes; print with \
    --mlir-print-op-generic
a string that does not end -- \"m|() : () -> () => 1:1 a string in quotes that ends on its line
no bracket of operands -- \"m\" => 1:4 `(`
no end of operands -- \"m\"( => 1:5 `)` or `,`
no colon before the type -- \"m\"() => 1:6 `:`
no bracket of operand types -- \"m\"() :  => 1:9 `(`
no arrow -- \"m\"() : () => 1:11 `->`
no result type -- \"m\"() : () -> => 1:14 a type
a type that begins with a bracket -- \"m\"() : () -> <i32> => 1:15 a type
a type that does not end -- \"m\"() : () -> !llvm.struct<(i32) => 1:33 the bracket that closes the one before
a location without brackets -- \"m\"() : () -> () loc => 1:21 the bracket that closes the one before
a word behind the end -- \"m\"() : () -> () x => 1:18 the end of the text
a second operation -- \"m\"() : () -> ()|\"n\"() : () -> () => 2:1 the end of the text
a region that does not begin -- \"m\"() ({ => 1:9 an operation, a block or `}`
a word in a region -- \"m\"() ({|  x|}) : () -> () => 2:3 the name of an operation in quotes; print with \
    --mlir-print-op-generic
regions that do not end -- \"m\"() ({|} => 2:2 `,` and a region, or `)`
a word for a region -- \"m\"() ({|}, x => 2:4 `{`
a result without a type -- \"m\"() ({|  %0 = \"a\"() : () -> ()|}) : () -> () => 2:22 as many results as there are \
    types
a type without an operand -- \"m\"() ({|  \"a\"() : (i32) -> ()|}) : () -> () => 2:11 as many types as operands
an operand that nothing defines -- \"m\"() ({|  \"a\"(%0) : (i32) -> ()|}) : () -> () => 2:7 a value that is \
    defined here or around
a block that the region lacks -- \"m\"() ({|  \"a\"()[^b] : () -> ()|}) : () -> () => 2:9 a block of this region
one name for two values -- \"m\"() ({|  %0 = \"a\"() : () -> i32|  %0 = \"a\"() : () -> i32|}) : () -> () => 3:3 a \
    value's name that its region doesn't define before
one name for two blocks -- \"m\"() ({|^a:|  \"x\"() : () -> ()|^a:|}) : () -> () => 4:1 a block's name that its \
    region doesn't define before
no colon of a block -- \"m\"() ({|^a|  \"x\"() : () -> ()|}) : () -> () => 3:3 `:`
no colon of an argument -- \"m\"() ({|^a(%0):|}) : () -> () => 2:6 `:`
an argument without its sign -- \"m\"() ({|^a(0: i32):|}) : () -> () => 2:4 `%` and the name of a value
properties that do not end -- \"m\"() <{a = 1 : () -> () => 1:25 `}` or `,`
a property without a name -- \"m\"() <{= 1}> : () -> () => 1:9 a name
one bracket of properties -- \"m\"() <{a = 1} : () -> () => 1:16 `>`
an attribute without a value -- \"m\"() {a = } : () -> () => 1:12 an attribute
a list with another bracket -- \"m\"() {a = [1)} : () -> () => 1:14 the bracket that closes the one before
an attribute's string that does not end -- \"m\"() {a = \"x} : () -> () => 1:12 a string in quotes that ends on \
    its line
fewer types than operands -- \"m\"() ({|  %0 = \"a\"() : () -> i32|  \"b\"(%0) : () -> ()|}) : () -> () => 3:13 as \
    many types as operands
an operand of another type -- \"m\"() ({|  %0 = \"a\"() : () -> i32|  \"b\"(%0) : (i64) -> ()|}) : () -> () => 3:3 \
    operands of the types that their definitions have
an operation behind one with successors -- \"m\"() ({|^a:|  \"b\"()[^a] : () -> ()|  \"c\"() : () -> ()|}) : () -> \
    () => 3:3 operations with successors only at the ends of blocks
no equals sign -- %0 \"a\"() : () -> i32 => 1:4 `,` or `=`
no number of results -- %0:x = \"a\"() : () -> i32 => 1:4 a number
fewer types than results -- %0:2 = \"a\"() : () -> i32 => 1:22 as many results as there are types
a result past the last -- \"m\"() ({|  %0:2 = \"a\"() : () -> (i32, i32)|  \"b\"(%0#2) : (i32) -> ()|}) : () -> () \
    => 3:7 a value that is defined here or around
a block without its sign -- \"m\"() ({|  \"b\"()[a] : () -> ()|}) : () -> () => 2:9 `^` and the name of a block
blocks that do not end -- \"m\"() ({|^a:|  \"b\"()[^a : () -> ()|}) : () -> () => 3:12 `]` or `,`
an alias without an equals sign -- #a 1|\"m\"() : () -> () => 1:4 `=`
an operand from a region inside -- \"m\"() ({|  \"r\"() ({|    %0 = \"a\"() : () -> i32|  }) : () -> \
    ()|  \"b\"(%0) : (i32) -> ()|}) : () -> () => 5:7 a value that is defined here or around
a block outside the region -- \"m\"() ({|^a:|  \"r\"() ({|    \"b\"()[^a] : () -> ()|  }) : () -> ()|}) : () -> () \
    => 4:11 a block of this region
an escape in the name of an attribute -- \"m\"() {\"a\\62\" = 1} : () -> () => 1:8 a name
an escape in the name of an operation -- \"m\\6d\"() : () -> () => 1:1 the name of an operation in quotes; print with \
    --mlir-print-op-generic
successors and regions outside a function -- \"m\"() ({|^a:|  \"b\"()[^a] ({|}) : () -> ()|}) : () -> () => 3:3 an \
    operation that fits its name";

#[test]
fn reports_where_modules_are_broken(rt: HostRuntime) {
    for case in BROKEN.lines() {
        let mut ctx = Context::new(rt.alloc());
        expect_broken(&rt, rt.alloc(), case, &mut ctx);
    }
}
