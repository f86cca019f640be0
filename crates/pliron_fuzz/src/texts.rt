//! Texts as they are printed.
ghost use Rattle.std.specs.Prelude.{IsOkUnless};

use pliron_core::Context;
use pliron_laws::OptError;
use pliron_text::{print_text, read_text};
use std::alloc::Global;

// The text as it is printed; `None` for one outside the notation.
fn print_if_read(alloc: Global, text: &str) -> Result<Option<String>, OptError>
    ensures { IsOkUnless result OptError.Memory }
{
    let mut ctx = Context::new(alloc);
    print_in(alloc, text, &mut ctx)
}

fn print_in(alloc: Global, text: &str, ctx: &mut Context) -> Result<Option<String>, OptError>
    ensures { IsOkUnless result OptError.Memory }
{
    match read_text(alloc, text.as_bytes(), ctx)? {
        Some(root) => Ok(Some(print_text(alloc, root, ctx)?)),
        None => Ok(None),
    }
}

/// Whether the text is read, and printed so.
///
/// Errors: allocation failure. Cost: reading and printing it.
pub fn is_printed(alloc: Global, text: &str, line: &str) -> Result<bool, OptError>
    ensures { IsOkUnless result OptError.Memory }
{
    match print_if_read(alloc, text)? {
        Some(found) => Ok(found.as_str() == line),
        None => Ok(false),
    }
}
