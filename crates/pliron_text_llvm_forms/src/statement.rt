//! Forms of statements.
ghost use Rattle.std.specs.Prelude.{◌≡◌, ◌≤◌, take, length, IfOk, MatchOption};
ghost use Rattle.pliron_text_llvm_forms.specs.StatementForms.{holes_of_statement, text_up_to, HasForm, IsForm};

use crate::form::form_from;
use pliron_text_llvm_reader::BodyStatement;
use pliron_text_llvm_syntax::Hole;
use std::alloc::{AllocError, Global};

/// The operands and successors of a statement, among those of its body. Asks that they are of this body. Cost: constant.
#[doc(hidden)]
pub fn holes_of_statement<'h>(holes: &'h [Hole], line: &BodyStatement) -> &'h [Hole]
    requires ordered { line.now.first_hole ≤ line.now.end_hole }
    requires within { line.now.end_hole ≤ length holes.now }
    ensures { result.now ≡ holes_of_statement holes.now line.now }
{
    &holes[line.first_hole..line.end_hole]
}

// The text up to this byte.
fn text_before(text: &[u8], end: usize) -> &[u8]
    requires { end ≤ length text.now }
    ensures { result.now ≡ take end text.now }
{
    &text[..end]
}

/// The form of a statement: its text from its opcode on, with a mark for each of these holes, which are its operands and
/// successors. None where they aren't in order behind the beginning of the opcode, or a byte of the statement is a mark itself.
///
/// Asks that the statement is in the text. Errors: allocation failure. Cost: linear in the statement.
#[doc(hidden)]
pub fn form_of_statement(
    alloc: Global,
    text: &[u8],
    line: &BodyStatement,
    holes: &[Hole],
) -> Result<Option<Vec<u8>>, AllocError>
    requires ordered { line.now.statement.opcode.start ≤ line.now.span.end }
    requires within { line.now.span.end ≤ length text.now }
    ensures { IfOk result (λ form. MatchOption form
        (¬ HasForm (text_up_to text.now line.now) line.now.statement.opcode.start holes.now)
        (λ form. IsForm (text_up_to text.now line.now) line.now.statement.opcode.start holes.now form.items)) }
{
    form_from(
        alloc,
        text_before(text, line.span.end),
        line.statement.opcode.start,
        holes,
    )
}
