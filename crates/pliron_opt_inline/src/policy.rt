//! What a driver says of inlining beside the laws of its dialect.
ghost use Rattle.std.specs.Prelude.{◌≡◌, ℕ, Bool, Some};
ghost use Rattle.pliron_core.specs.declared.attrs.Head.{Head as HeadOf};
ghost use Rattle.pliron_core.specs.Tree.{IsLive, head_of};
ghost use Rattle.pliron_laws.specs.Answers.{ReadsHead};

use pliron_core::{Context, Operation, Ptr};
use pliron_dialect_calls::InliningDialect;

/// What a driver says of inlining beside the laws of its dialect: which calls may be inlined, what may be copied, how large
/// operations are, which functions are to be inlined, and which are private to their module.
///
/// It is a value, since what it answers of a head may stand elsewhere, as in the sheet of a text. Linked runs are kept
/// whatever it answers: it says what runs don't show, as names that a linker may give another body, attributes that two
/// functions must share, slots of frames, the size of code.
pub trait InliningPolicy<D: InliningDialect> {
    // of the heads of a caller, a callee and a call: whether the call may be inlined
    ghost admits: { Self → HeadOf → HeadOf → HeadOf → Bool };

    // of a head: whether the operation may be copied, and its size
    ghost allows_copy: { Self → HeadOf → Bool };

    ghost size: { Self → HeadOf → ℕ };

    // of the head of a function: whether its calls are to be inlined, and whether only its module calls it
    ghost is_asked_for: { Self → HeadOf → Bool };

    ghost is_private: { Self → HeadOf → Bool };

    /// Whether the call of this callee in this caller may be inlined. Asks that all three are live (`is_live` tests it).
    fn admits(
        &self,
        caller: Ptr<Operation>,
        callee: Ptr<Operation>,
        call: Ptr<Operation>,
        ctx: &Context,
    ) -> bool
        requires caller { IsLive ctx.now.tree caller }
        requires callee { IsLive ctx.now.tree callee }
        requires call { IsLive ctx.now.tree call }
        ensures { (f g h : HeadOf) → head_of ctx.now.tree caller ≡ Some f → head_of ctx.now.tree callee ≡ Some g →
            head_of ctx.now.tree call ≡ Some h → result ≡ admits self.now f g h };

    /// Whether the operation may be copied from its function to another one. Asks that it is live (`is_live` tests it).
    fn allows_copy(&self, op: Ptr<Operation>, ctx: &Context) -> bool
        requires { IsLive ctx.now.tree op }
        ensures { ReadsHead (allows_copy self.now) ctx.now.tree op result };

    /// The size of the operation, in units of the driver's own. Asks that it is live (`is_live` tests it).
    fn size(&self, op: Ptr<Operation>, ctx: &Context) -> u32
        requires { IsLive ctx.now.tree op }
        ensures { ReadsHead (size self.now) ctx.now.tree op result };

    /// Whether calls of the function are to be inlined whatever its size, as by `always_inline`. Asks that it is live
    /// (`is_live` tests it).
    fn is_asked_for(&self, function: Ptr<Operation>, ctx: &Context) -> bool
        requires { IsLive ctx.now.tree function }
        ensures { ReadsHead (is_asked_for self.now) ctx.now.tree function result };

    /// Whether nobody outside the module calls the function. Asks that it is live (`is_live` tests it).
    fn is_private(&self, function: Ptr<Operation>, ctx: &Context) -> bool
        requires { IsLive ctx.now.tree function }
        ensures { ReadsHead (is_private self.now) ctx.now.tree function result };
}
