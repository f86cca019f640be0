//! What passes leave that finds nothing more to do.
ghost use Rattle.std.specs.Prelude.{IsOkUnless};

use crate::answer::{Answer, answer_to};
use pliron_core::{Context, IRRewriter, IRStatus};
use pliron_dialect_bench::Bench;
use pliron_driver::{merge_inside_op, remove_blocks_inside_op, simplify_cfg};
use pliron_laws::OptError;
use pliron_text::read_text;
use std::alloc::{AllocError, Global};

/// Whether the passes of the first list leave a line that those of the second leave as it is, unchanged. True
/// where the first are refused.
///
/// Errors: allocation failure. Cost: two answers of the program.
pub fn is_settled(
    alloc: Global,
    first: &str,
    second: &str,
    text: &str,
) -> Result<bool, AllocError> {
    match answer_to(alloc, first, text)? {
        Answer::Line(once, _) => match answer_to(alloc, second, &once)? {
            Answer::Line(twice, is_changed) => Ok(!is_changed && once == twice),
            _ => Ok(false),
        },
        Answer::Refused => Ok(true),
        _ => Ok(false),
    }
}

// Whether a call on control flow left the tree as it was, and wasn't refused.
fn leaves_it(answer: Result<IRStatus, OptError>) -> Result<bool, OptError>
    ensures { IsOkUnless result OptError.Memory }
{
    match answer {
        Ok(status) => Ok(status == IRStatus::Unchanged),
        Err(OptError::Memory) => Err(OptError::Memory),
        Err(_) => Ok(false),
    }
}

/// Whether simplifying leaves no unreachable block and no pair to merge. True where it is refused.
///
/// Errors: allocation failure. Cost: reading the text, and three walks over it.
pub fn is_simple_after(alloc: Global, text: &str) -> Result<bool, OptError>
    ensures { IsOkUnless result OptError.Memory }
{
    let mut ctx = Context::new(alloc);
    is_simple_after_in(alloc, text, &mut ctx)
}

fn is_simple_after_in(alloc: Global, text: &str, ctx: &mut Context) -> Result<bool, OptError>
    ensures { IsOkUnless result OptError.Memory }
{
    let Some(root) = read_text(alloc, text.as_bytes(), ctx)? else {
        return Ok(false);
    };
    match simplify_cfg::<Bench>(alloc, root, ctx) {
        Ok(_) => {}
        Err(OptError::LiveUse) => return Ok(true),
        Err(OptError::Memory) => return Err(OptError::Memory),
        Err(_) => return Ok(false),
    }
    let mut rewriter = IRRewriter::new();
    let removed = remove_blocks_inside_op::<Bench, IRRewriter>(alloc, root, ctx, &mut rewriter);
    if !leaves_it(removed)? {
        return Ok(false);
    }
    leaves_it(merge_inside_op::<Bench, IRRewriter>(alloc, root, ctx, &mut rewriter))
}
