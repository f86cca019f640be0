//! Tokens of a statement.
ghost use Rattle.std.specs.Prelude.{◌≡◌, ◌≤◌, [], length, OnOk, IfErr};
ghost use Rattle.pliron_text_llvm_syntax.specs.Tokens.{IsFaultIn};
ghost use Rattle.pliron_text_llvm_syntax.specs.Lexing.{is_trivia};
ghost use Rattle.pliron_text_llvm_reader.specs.TokenLists.{AreLexed, AreTokens};

use pliron_text_llvm_syntax::{LlvmFault, LlvmToken, TokenKind, token_at};

// Whether the token is blanks or a comment.
fn is_trivia(kind: TokenKind) -> bool
    ensures { result ≡ is_trivia kind }
{
    matches!(kind, TokenKind::Trivia)
}

/// Adds the tokens of the text from this byte on to none, but for blanks and comments, in their order. Asks that the
/// byte is in the text, or its end. Errors: a token is broken; allocation failure. Cost: linear in the text from there on.
#[doc(hidden)]
#[tactic(auto, using(crate::proofs::TokenLemmas::token_steps, crate::proofs::StopLemmas::fault_memory))]
pub fn push_tokens(text: &[u8], start: usize, tokens: &mut Vec<LlvmToken>) -> Result<(), LlvmFault>
    requires start { start ≤ length text.now }
    requires empty { tokens.old.items ≡ [] }
    ensures lexed { OnOk result (AreLexed text.now start (length text.now) tokens.new.items) }
    ensures tokens { OnOk result (AreTokens start (length text.now) tokens.new.items) }
    ensures fault { IfErr result (λ fault. IsFaultIn text.now fault) }
{
    let mut at = start;
    while at < text.len() {
        let token = token_at(text, at)?;
        if !is_trivia(token.kind) {
            tokens.push(token)?;
        }
        at = token.span.end;
    }
    Ok(())
}
