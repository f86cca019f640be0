//! Functions of a module.
ghost use Rattle.std.specs.Prelude.{◌≡◌, ◌<◌, ◌≤◌, length, IfOk, IfErr};
ghost use Rattle.pliron_text_llvm_syntax.specs.Tokens.{IsTokenAt, IsFaultIn};
ghost use Rattle.pliron_text_llvm_syntax.specs.Functions.{is_word_kind, is_open_brace, is_define, HasBraces, IsFunctionAt};

use crate::brackets::{next_tree, token_tree_at};
use crate::fault::{ExpectedSyntax, LlvmFault};
use crate::tokens::{Bracket, ByteSpan, LlvmToken, TokenKind, bytes_of, token_at};

/// A function with a body, and what its text has.
#[doc(hidden)]
#[derive(Clone, Copy, Debug, Drop, PartialEq, Eq)]
pub struct FunctionText {
    /// From `define` to the `}` of its body.
    pub span: ByteSpan,
    /// Its name, with the `@`.
    pub name: ByteSpan,
    /// The parameters, with their brackets.
    pub parameters: ByteSpan,
    /// The body, with its brackets.
    pub body: ByteSpan,
}

/// What a header says next.
#[derive(Clone, Copy, PartialEq, Eq)]
enum HeaderNext {
    /// Attributes, or the body.
    Body,
    /// The type behind `prefix`, `prologue` or `personality`.
    Type,
    /// The constant behind that type.
    Constant,
}

impl HeaderNext {
    // What is next behind the token.
    fn behind(self, kind: TokenKind, bytes: &[u8]) -> HeaderNext {
        match (self, kind) {
            (HeaderNext::Body, TokenKind::Word) => match bytes {
                b"prefix" | b"prologue" | b"personality" => HeaderNext::Type,
                _ => HeaderNext::Body,
            },
            (HeaderNext::Type, _) => HeaderNext::Constant,
            (HeaderNext::Constant, TokenKind::Mark | TokenKind::Open(Bracket::Round)) =>
                HeaderNext::Constant,
            (HeaderNext::Constant, TokenKind::Word) if bytes == b"addrspace".as_slice() =>
                HeaderNext::Constant,
            _ => HeaderNext::Body,
        }
    }
}

// Whether the token is a word.
fn is_word(kind: TokenKind) -> bool
    ensures { result ≡ is_word_kind kind }
{
    matches!(kind, TokenKind::Word)
}

// Whether the token opens a brace.
fn is_brace(kind: TokenKind) -> bool
    ensures { result ≡ is_open_brace kind }
{
    matches!(kind, TokenKind::Open(Bracket::Brace))
}

/// Whether the token is the word `define`. Asks that it is a token of the text. Cost: constant.
#[doc(hidden)]
pub fn is_define(text: &[u8], token: &LlvmToken) -> bool
    requires { IsTokenAt text.now token.now.span.start token.now }
    ensures { result ≡ is_define text.now token.now }
{
    is_word(token.kind) && bytes_of(text, token.span) == b"define".as_slice()
}

// The name of the function whose header goes on here.
fn name_from(text: &[u8], at: usize, open: &mut Vec<Bracket>) -> Result<ByteSpan, LlvmFault>
    requires { at ≤ length text.now }
    ensures name { IfOk result (λ name. (at ≤ name.start) × (name.start < name.end) × (name.end ≤ length text.now)) }
    ensures fault { IfErr result (λ fault. IsFaultIn text.now fault) }
{
    let mut end = at;
    while end < text.len() {
        let token = token_tree_at(text, end, open)?;
        if token.kind == TokenKind::Name && text[end] == b'@' {
            return Ok(token.span);
        }
        if is_define(text, &token) {
            break;
        }
        end = token.span.end;
    }
    Err(LlvmFault::Expected(end, ExpectedSyntax::Body))
}

// The parameters of the function whose header goes on here.
fn parameters_from(text: &[u8], at: usize, open: &mut Vec<Bracket>) -> Result<ByteSpan, LlvmFault>
    requires { at ≤ length text.now }
    ensures parameters { IfOk result (λ parameters.
        (at ≤ parameters.start) × (parameters.start < parameters.end) × (parameters.end ≤ length text.now)) }
    ensures fault { IfErr result (λ fault. IsFaultIn text.now fault) }
{
    match next_tree(text, at, open)? {
        Some(token) if token.kind == TokenKind::Open(Bracket::Round) => Ok(token.span),
        Some(token) => Err(LlvmFault::Expected(token.span.start, ExpectedSyntax::OpenRound)),
        None => Err(LlvmFault::Expected(text.len(), ExpectedSyntax::OpenRound)),
    }
}

// The body of the function whose header goes on here.
#[tactic(auto, using(crate::proofs::BracketLemmas::braces_read))]
fn body_from(text: &[u8], at: usize, open: &mut Vec<Bracket>) -> Result<ByteSpan, LlvmFault>
    requires { at ≤ length text.now }
    ensures body { IfOk result (λ body. (at ≤ body.start) × (body.start < body.end) × (body.end ≤ length text.now)) }
    ensures braces { IfOk result (λ body. HasBraces text.now body) }
    ensures fault { IfErr result (λ fault. IsFaultIn text.now fault) }
{
    let mut end = at;
    let mut next = HeaderNext::Body;
    while end < text.len() {
        let token = token_tree_at(text, end, open)?;
        if next == HeaderNext::Body && is_brace(token.kind) {
            return Ok(token.span);
        }
        if is_define(text, &token) {
            break;
        }
        if token.kind != TokenKind::Trivia {
            next = next.behind(token.kind, bytes_of(text, token.span));
        }
        end = token.span.end;
    }
    Err(LlvmFault::Expected(end, ExpectedSyntax::Body))
}

/// The function whose `define` is at this byte. The name is the first one with `@` outside brackets; the body is the
/// first `{` outside brackets that begins no type or constant behind `prefix`, `prologue` or `personality`.
///
/// Asks that the byte is in the text; `open` is room for the brackets in one another. Errors: no name, no parameters behind it, no body; a token or a
/// bracket is broken; allocation failure. Cost: linear in the function.
#[doc(hidden)]
pub fn function_at(
    text: &[u8],
    at: usize,
    open: &mut Vec<Bracket>,
) -> Result<FunctionText, LlvmFault>
    requires { at < length text.now }
    ensures function { IfOk result (λ function. IsFunctionAt text.now at function) }
    ensures body { IfOk result (λ function. HasBraces text.now function.body) }
    ensures fault { IfErr result (λ fault. IsFaultIn text.now fault) }
{
    let define = token_at(text, at)?;
    let name = name_from(text, define.span.end, open)?;
    let parameters = parameters_from(text, name.end, open)?;
    let body = body_from(text, parameters.end, open)?;
    Ok(FunctionText {
        span: ByteSpan {
            start: at,
            end: body.end,
        },
        name,
        parameters,
        body,
    })
}
