//! A policy that rows write.
ghost use Rattle.std.specs.Prelude.{nat_eq, not};

use pliron_core::{Context, Operation, Ptr};
use pliron_dialect::ByRoles;
use pliron_dialect_calls_tests::routine_kind::RoutineKind;
use pliron_opt_inline::InliningPolicy;

/// The dialect of the rows.
pub type Routines = ByRoles<RoutineKind>;

/// A policy that says the same of all functions and calls. The size of an operation is the number of its kind.
#[derive(Clone, Copy, Drop)]
pub struct RowPolicy {
    pub admitted: bool,
    pub asked_for: bool,
    pub private: bool,
    /// The number of the kind that may not be copied.
    pub uncopied: u32,
}

impl RowPolicy {
    /// The policy of this word: `n` admits no call, `a` asks for all functions, `p` says that they are private, `c` that
    /// prints may not be copied.
    pub fn of(word: &str) -> RowPolicy {
        RowPolicy {
            admitted: word != "n",
            asked_for: word == "a",
            private: word == "p",
            uncopied: if word == "c" { 6 } else { 7 },
        }
    }
}

impl InliningPolicy<Routines> for RowPolicy {
    ghost admits = { λ p f g h. p.admitted };

    ghost allows_copy = { λ p h. not (nat_eq h.kind p.uncopied) };

    ghost size = { λ p h. h.kind };

    ghost is_asked_for = { λ p h. p.asked_for };

    ghost is_private = { λ p h. p.private };

    fn admits(
        &self,
        _caller: Ptr<Operation>,
        _callee: Ptr<Operation>,
        _call: Ptr<Operation>,
        _ctx: &Context,
    ) -> bool {
        self.admitted
    }

    fn allows_copy(&self, op: Ptr<Operation>, ctx: &Context) -> bool {
        op.head(ctx).kind != self.uncopied
    }

    fn size(&self, op: Ptr<Operation>, ctx: &Context) -> u32 {
        op.head(ctx).kind
    }

    fn is_asked_for(&self, _function: Ptr<Operation>, _ctx: &Context) -> bool {
        self.asked_for
    }

    fn is_private(&self, _function: Ptr<Operation>, _ctx: &Context) -> bool {
        self.private
    }
}
