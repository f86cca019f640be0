//! Texts, and what is left of them where no rule applies any more.
ghost use Rattle.std.specs.Prelude.{◌≡◌};
ghost use Rattle.pliron_core.specs.Writes.{no_tree};

use pliron_arithmetic_rules::ArithmeticRules;
use pliron_core::Context;
use pliron_dialect_arithmetic::{Arithmetic, ArithmeticKind};
use pliron_laws::OptError;
use pliron_opt_combine::combine;
use pliron_text::{print_operation, read_operation};
use std::alloc::Global;
use std::process::Abort;

/// Names, texts, and what the rules leave of them: what a term makes is just before the operation, which stays.
static ROWS: &str = "\
a value by itself -- function { b0(x): s = add x x; return s } => function { b0(v0): v1 = lit 2; v2 = mul v0 v1; v3 = add v0 v0; \
    return v2 }
two values -- function { b0(x, y): s = add x y; return s } => function { b0(v0, v1): v2 = add v0 v1; return v2 }";

// What is left of the text, if it is in the notation.
fn combined(alloc: Global, text: &str, ctx: &mut Context) -> Result<Option<String>, OptError>
    requires { ctx.old.tree ≡ no_tree }
{
    let Some(root) = read_operation::<ArithmeticKind>(alloc, text.as_bytes(), ctx)? else {
        return Ok(None);
    };
    combine::<Arithmetic, ArithmeticRules>(alloc, root, 100, ctx)?;
    Ok(Some(print_operation::<ArithmeticKind>(alloc, root, ctx)?))
}

fn check(rt: &impl Abort, alloc: Global, row: &str, ctx: &mut Context)
    requires { ctx.old.tree ≡ no_tree }
{
    let (name, case) = row.split_once(" -- ").expect(rt, "a name");
    let (before, after) = case.split_once(" => ").expect(rt, "a case");
    let left = combined(alloc, before, ctx).expect(rt, "memory");
    let left = left.expect(rt, "a text");
    assert_eq!(rt; left.as_str(), after, "{name}");
}

#[test]
fn rules_leave(rt: HostRuntime) {
    for row in ROWS.lines() {
        let mut ctx = Context::new(rt.alloc());
        check(&rt, rt.alloc(), row, &mut ctx);
    }
}
