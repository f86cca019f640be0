//! Reading a text of a dialect by roles.
ghost use Rattle.std.specs.Prelude.{◌≡◌, ◌+◌, ◌≤◌, length, None, IfOk, IfSome, OnErr, IsOkUnless};
ghost use Rattle.pliron_core.specs.Changes.{IsSameTree};
ghost use Rattle.pliron_laws.specs.declared.fault.OptError.TheVariants.{Memory};
ghost use Rattle.pliron_laws.specs.Linked.{IsWellLinked};
ghost use Rattle.pliron_dialect.specs.Roles.{meaning_by, role_at, allows_at};
ghost use Rattle.pliron_text.specs.Building.{IsGrown};
ghost use Rattle.pliron_text.specs.Notation.{IsAdmittedSyntax, IsSoundSyntax};

use crate::admission::first_not_admitted;
use crate::build::build;
use crate::expected::{ExpectedItem, SyntaxFault};
use crate::grammar::Grammar;
use crate::parser::parse;
use crate::stop::Stop;
use crate::syntax::Syntax;
use crate::tokens::{Span, Tokens, span_of_token, tokenise};
use pliron_core::{Context, Operation, Ptr};
use pliron_laws::OptError;
use std::alloc::Global;

/// The first place at which a text leaves the notation, and what was expected there. A name that is never defined is
/// found at the text's end, and its place is where it is first used; an operation that the dialect doesn't admit is
/// found behind that, and its place is the word of its kind.
#[derive(Clone, Copy, Debug, Drop, PartialEq, Eq)]
pub struct TextFault {
    pub span: Span,
    pub expected: ExpectedItem,
}

/// Reads a text of the dialect of these kinds and builds its operation, which is in no block and is well linked.
/// `None` is an unreadable text, which is decided before anything is made.
///
/// Errors: allocation failure, after which nothing of the text is live.
/// Cost: linear in the text, but for look-ups of names, each of which takes the logarithm of their
/// number.
pub fn read_operation<K: Grammar>(
    alloc: Global,
    text: &[u8],
    ctx: &mut Context,
) -> Result<Option<Ptr<Operation>>, OptError>
    ensures read { IfOk result (λ read. IfSome read (λ root. IsGrown ctx.old.tree ctx.new.tree root)) }
    ensures linked { IfOk result (λ read. IfSome read (λ root. IsWellLinked (meaning_by K.tables.value
        (role_at K.tables) (allows_at K.tables)) ctx.new.tree root)) }
    ensures unreadable { IfOk result (λ read. read ≡ None → ctx.new ≡ ctx.old) }
    ensures refused { OnErr result (IsSameTree ctx.old.tree ctx.new.tree) }
    ensures memory { IsOkUnless result OptError.Memory }
{
    match read_syntax::<K>(alloc, text) {
        Ok(syntax) => Ok(Some(build(alloc, &syntax, ctx)?)),
        Err(Stop::Unreadable(_)) => Ok(None),
        Err(Stop::NoMemory) => Err(OptError::Memory),
    }
}

/// Where and why `read_operation` finds a text unreadable; `None` where it reads it.
///
/// Errors: allocation failure. Cost: that of reading.
pub fn find_fault<K: Grammar>(alloc: Global, text: &[u8]) -> Result<Option<TextFault>, OptError>
    ensures within { IfOk result (λ found. IfSome found (λ fault. fault.span.start + fault.span.len ≤ length
        text.now)) }
    ensures memory { IsOkUnless result OptError.Memory }
{
    match read_syntax::<K>(alloc, text) {
        Ok(_) => Ok(None),
        Err(Stop::Unreadable(SyntaxFault { token, expected })) => Ok(Some(TextFault {
            span: span_of_token(text, token),
            expected,
        })),
        Err(Stop::NoMemory) => Err(OptError::Memory),
    }
}

// The syntax of a text. Errors: the first place at which it leaves the notation; allocation failure.
fn read_syntax<K: Grammar>(alloc: Global, text: &[u8]) -> Result<Syntax, Stop>
    ensures sound { IfOk result (λ syntax. IsSoundSyntax syntax) }
    ensures admitted { IfOk result (λ syntax. IsAdmittedSyntax (meaning_by K.tables.value (role_at K.tables)
        (allows_at K.tables)) syntax) }
{
    let tokens = tokenise::<K>(alloc, text)?;
    let parsed = parse(alloc, &tokens);
    match tokens.misread {
        Some(misread) => Err(earlier(parsed, misread)),
        None => buildable(alloc, parsed?, &tokens),
    }
}

// The syntax that was parsed of these tokens, if it makes a tree of the dialect.
fn buildable<K: Grammar>(alloc: Global, syntax: Syntax, text: &Tokens<K>) -> Result<Syntax, Stop>
    ensures sound { IfOk result (λ syntax. IsSoundSyntax syntax) }
    ensures admitted { IfOk result (λ syntax. IsAdmittedSyntax (meaning_by K.tables.value (role_at K.tables)
        (allows_at K.tables)) syntax) }
{
    if !syntax.is_sound() {
        return Err(Stop::at(0, ExpectedItem::Tree));
    }
    match first_not_admitted::<K>(alloc, &syntax)? {
        None => Ok(syntax),
        Some(number) => Err(Stop::at(text.place_of_kind(number), ExpectedItem::AdmittedOperation)),
    }
}

// Why reading ends that parsed tokens up to this misread place.
fn earlier(parsed: Result<Syntax, Stop>, misread: SyntaxFault) -> Stop {
    match parsed {
        Err(Stop::NoMemory) => Stop::NoMemory,
        Err(Stop::Unreadable(fault)) if fault.token < misread.token => Stop::Unreadable(fault),
        _ => Stop::Unreadable(misread),
    }
}
