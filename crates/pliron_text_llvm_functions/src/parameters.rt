//! Parameters of a function.
ghost use Rattle.std.specs.Prelude.{◌≡◌, ◌<◌, ◌≤◌, ◌+◌, ◌++◌, [], length, Some, IfOk, OnOk};
ghost use Rattle.pliron_text_llvm_reader.specs.Cursors.{depth_behind};
ghost use Rattle.pliron_text_llvm_functions.specs.Parameters.{has_first_byte, is_comma_token, is_local_token, is_dots_token, state_behind};
ghost use Rattle.pliron_text_llvm_functions.specs.Parameters.{arguments, parameters_of, TakesToken};

use pliron_text_llvm_names::{DefinitionKind, LocalDefinition};
use pliron_text_llvm_syntax::{ByteSpan, LlvmToken, TokenKind};
use std::alloc::AllocError;

/// What was read of a parameter.
#[doc(hidden)]
#[derive(Clone, Copy, Debug, Drop, PartialEq, Eq)]
pub enum ParameterState {
    /// Nothing, or `...`.
    Nothing,
    /// Its last token isn't a name.
    Unnamed,
    /// Its last token is this name.
    Named(ByteSpan),
}

/// What was read of parameters: how many brackets are open, and what of the last parameter.
#[doc(hidden)]
#[derive(Clone, Copy, Debug, Drop, PartialEq, Eq)]
pub struct ParameterScan {
    pub depth: usize,
    pub state: ParameterState,
}

// Whether the text has this byte here.
fn has_first_byte(text: &[u8], token: &LlvmToken, byte: u8) -> bool
    ensures { result ≡ has_first_byte text.now token.now byte }
{
    match text.get(token.span.start) {
        Some(first) => *first == byte,
        None => false,
    }
}

// Whether the token is a comma.
fn is_comma_token(text: &[u8], token: &LlvmToken) -> bool
    ensures { result ≡ is_comma_token text.now token.now }
{
    matches!(token.kind, TokenKind::Mark) && has_first_byte(text, token, b',')
}

// Whether the token is a local name.
fn is_local_token(text: &[u8], token: &LlvmToken) -> bool
    ensures { result ≡ is_local_token text.now token.now }
{
    matches!(token.kind, TokenKind::Name) && has_first_byte(text, token, b'%')
}

// Whether the token is a word that begins with `.`, as `...` does.
fn is_dots_token(text: &[u8], token: &LlvmToken) -> bool
    ensures { result ≡ is_dots_token text.now token.now }
{
    matches!(token.kind, TokenKind::Word) && has_first_byte(text, token, b'.')
}

// How many brackets are open behind the token, where so many are open before it.
fn depth_behind(kind: TokenKind, depth: usize) -> usize
    requires { depth < 9223372036854775807 }
    ensures exact { result ≡ depth_behind (Some kind) depth }
    ensures few { result ≤ depth + 1 }
{
    match kind {
        TokenKind::Open(_) => depth + 1,
        TokenKind::Close(_) => depth.saturating_sub(1),
        _ => depth,
    }
}

// What was read of the parameter behind the token.
fn state_behind(text: &[u8], scan: ParameterScan, token: &LlvmToken) -> ParameterState
    ensures { result ≡ state_behind text.now scan.depth scan.state token.now }
{
    match scan.state {
        ParameterState::Nothing if is_dots_token(text, token) => ParameterState::Nothing,
        ParameterState::Nothing => ParameterState::Unnamed,
        _ if scan.depth == 0 && is_local_token(text, token) => ParameterState::Named(token.span),
        _ => ParameterState::Unnamed,
    }
}

// Adds the parameter, if there is one.
fn push_argument(
    state: ParameterState,
    definitions: &mut Vec<LocalDefinition>,
) -> Result<(), AllocError>
    ensures { OnOk result (definitions.new.items
        ≡ definitions.old.items ++ arguments (length definitions.old.items) state) }
{
    let name = match state {
        ParameterState::Nothing => return Ok(()),
        ParameterState::Unnamed => None,
        ParameterState::Named(span) => Some(span),
    };
    definitions.push(LocalDefinition {
        what: DefinitionKind::Argument(definitions.len()),
        name,
    })?;
    Ok(())
}

// Reads one token more; a comma outside brackets adds the parameter before it.
#[tactic(auto, using(crate::proofs::ParameterLemmas::comma_taken, crate::proofs::ParameterLemmas::token_taken))]
fn take_token(
    text: &[u8],
    token: &LlvmToken,
    scan: ParameterScan,
    definitions: &mut Vec<LocalDefinition>,
) -> Result<ParameterScan, AllocError>
    requires { scan.depth < 9223372036854775807 }
    ensures token { IfOk result (λ behind.
        TakesToken text.now token.now scan definitions.old.items behind definitions.new.items) }
    ensures depth { IfOk result (λ behind. behind.depth ≤ scan.depth + 1) }
{
    if scan.depth == 0 && is_comma_token(text, token) {
        push_argument(scan.state, definitions)?;
        return Ok(ParameterScan {
            depth: 0,
            state: ParameterState::Nothing,
        });
    }
    Ok(ParameterScan {
        depth: depth_behind(token.kind, scan.depth),
        state: state_behind(text, scan, token),
    })
}

/// Adds the parameters that have these tokens to none: what is between commas outside brackets, but for `...`. A
/// parameter's name is its last token, where that is a local name, and not its first one, which is a type.
///
/// Asks that there is no definition yet. Errors: allocation failure. Cost: linear in the tokens.
#[doc(hidden)]
#[tactic(auto, using(crate::proofs::ParameterLemmas::parameters_none, crate::proofs::ParameterLemmas::parameters_more, crate::proofs::ParameterLemmas::parameters_all))]
pub fn push_parameters(
    text: &[u8],
    tokens: &[LlvmToken],
    definitions: &mut Vec<LocalDefinition>,
) -> Result<(), AllocError>
    requires { definitions.old.items ≡ [] }
    ensures { OnOk result (definitions.new.items ≡ parameters_of text.now tokens.now) }
{
    let mut scan = ParameterScan {
        depth: 0,
        state: ParameterState::Nothing,
    };
    for token in tokens {
        scan = take_token(text, token, scan, definitions)?;
    }
    push_argument(scan.state, definitions)
}
