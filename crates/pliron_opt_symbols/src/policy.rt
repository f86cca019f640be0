//! What a driver says of names beside the laws of its dialect.
ghost use Rattle.std.specs.Prelude.{◌≡◌, Bool};
ghost use Rattle.pliron_core.specs.declared.attrs.Head.{Head as HeadOf};
ghost use Rattle.pliron_core.specs.Tree.{IsLive};
ghost use Rattle.pliron_laws.specs.Answers.{ReadsHead};
ghost use Rattle.pliron_rewrite_symbols.specs.Callers.{CallOnlyCallees};

use pliron_core::{Context, Operation, Ptr};
use pliron_dialect_calls::InliningDialect;

/// What a driver says of names beside the laws of its dialect: which functions nobody names but calls in their module, and which
/// operations can call nothing but their callee.
///
/// It is a value, since what it answers of a head may stand elsewhere, as in the sheet of a text. A function that is said to be
/// private though another module or the world names it may go: linked runs are kept where none does. That what is said to call
/// its callee alone does so is proved.
pub trait SymbolPolicy<D: InliningDialect> {
    // of the head of a function: whether only calls by name in its module name it
    ghost is_private: { Self → HeadOf → Bool };

    // of a head: whether the operation can call its callee alone
    ghost is_traced: { Self → HeadOf → Bool };

    /// Whether nobody names the function but calls in its module. Asks that it is live (`is_live` tests it).
    fn is_private(&self, function: Ptr<Operation>, ctx: &Context) -> bool
        requires { IsLive ctx.now.tree function }
        ensures { ReadsHead (is_private self.now) ctx.now.tree function result };

    /// Whether the operation can call nothing but its callee. Asks that it is live (`is_live` tests it).
    fn is_traced(&self, op: Ptr<Operation>, ctx: &Context) -> bool
        requires { IsLive ctx.now.tree op }
        ensures { ReadsHead (is_traced self.now) ctx.now.tree op result };

    // What is said to call its callee alone does so.
    ghost callers: { (policy : Self) → CallOnlyCallees D.meaning D.convention D.callee (is_traced policy) };
}
