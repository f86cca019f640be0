//! A policy that rows write.
ghost use Rattle.std.specs.Prelude.{◌≡◌, nat_eq, length};
ghost use Rattle.pliron_dialect_calls_tests.specs.Routines.{routines};
ghost use Rattle.pliron_rewrite_symbols.specs.CallersByRole.{has_kind};
ghost use Rattle.pliron_symbols_tests.specs.Traced.{is_traced_kind, kind_itself, routine_callers};

use pliron_core::{Context, Operation, Ptr};
use pliron_dialect::{ByRoles, Roles};
use pliron_dialect_calls_tests::routine_kind::RoutineKind;
use pliron_opt_symbols::SymbolPolicy;

/// The dialect of the rows.
pub type Routines = ByRoles<RoutineKind>;

/// A policy by which a function is private that has nothing but its name, and packs may call any.
#[derive(Clone, Copy, Drop)]
pub struct RowSymbols {}

fn is_traced(kind: RoutineKind) -> bool
    ensures { result ≡ is_traced_kind kind }
{
    !matches!(kind, RoutineKind::Pack)
}

impl SymbolPolicy<Routines> for RowSymbols {
    ghost is_private = { λ p h. nat_eq (length h.attrs) 1 };

    ghost is_traced = { λ p. has_kind routines is_traced_kind };

    fn is_private(&self, function: Ptr<Operation>, ctx: &Context) -> bool {
        function.head(ctx).attrs.len() == 1
    }

    fn is_traced(&self, op: Ptr<Operation>, ctx: &Context) -> bool {
        match RoutineKind::from_number(op.head(ctx).kind) {
            Some(kind) => is_traced(kind),
            None => false,
        }
    }

    ghost callers = { λ p. routine_callers is_traced_kind kind_itself };
}
