//! Which kinds call functions by name.
ghost use Rattle.std.specs.Prelude.{◌≡◌};
ghost use Rattle.pliron_dialect_calls.specs.CallTables.{CallTables, KeepsCalls};

use pliron_dialect::Roles;

/// Kinds of which some call functions by name and some are functions: `ByRoles` of them is an `InliningDialect`.
///
/// What calls shows one effect, its kind with its attributes and its operands, and gives the results that are its answer;
/// so does a kind that acts by `effect_act`. A function visits its region once with what it is called on, and leaves with
/// what that leaves with. Returns and jumps are the kinds of these forms.
pub trait Calls: Roles {
    // the places of names among attributes, and which kinds never leave
    ghost calls: { CallTables Self };

    /// The place among its attributes at which an operation of the kind has the name of the function that it calls; `None`
    /// where the kind calls none.
    fn callee_place(self) -> Option<usize>
        ensures { result ≡ calls.callee_place self };

    /// The place among its attributes at which a function of the kind has its name; `None` for another kind.
    fn symbol_place(self) -> Option<usize>
        ensures { result ≡ calls.symbol_place self };

    /// Whether an operation of the kind never leaves its region, where it acts by its own table.
    fn stays(self) -> bool
        ensures { result ≡ calls.stays self };

    // The roles of the kinds do what these tables say.
    ghost keeps_calls: { KeepsCalls Self.tables calls };
}
