//! Texts that are read with what they say beside the tree.
ghost use Rattle.std.specs.Prelude.{◌≡◌, IfOk, IfSome};
ghost use Rattle.pliron_core.specs.Tree.{IsLive};
ghost use Rattle.pliron_core.specs.Writes.{no_tree};
ghost use Rattle.pliron_laws.specs.Linked.{IsWellLinked};

use pliron_core::Context;
use pliron_driver::{Document, Notation, TextFailure};
use pliron_laws::OptError;
use std::alloc::Global;

/// Reads a text with its sheet. Its operation is live and well linked. `None` is a text outside the notation. Asks that
/// the context is empty. Errors: allocation failure. Cost: that of `read_document`.
pub fn read_shown<N: Notation>(
    alloc: Global,
    text: &[u8],
    ctx: &mut Context,
) -> Result<Option<Document<N::Sheet>>, OptError>
    requires { ctx.old.tree ≡ no_tree }
    ensures liveness { IfOk result (λ found. IfSome found (λ read. IsLive ctx.new.tree read.root)) }
    ensures linked { IfOk result (λ found. IfSome found (λ read. IsWellLinked N.D.meaning ctx.new.tree read.root)) }
    ensures text { IfOk result (λ found. IfSome found (λ read. N.reads text.now ctx.new.tree read.root)) }
{
    match N::read_document(alloc, text, ctx) {
        Ok(document) => Ok(Some(document)),
        Err(TextFailure::Text(_)) => Ok(None),
        Err(TextFailure::Refused(error)) => Err(error),
    }
}
