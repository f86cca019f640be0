//! The tables of a dialect.
ghost use Rattle.std.specs.Prelude.{◌≡◌, ℕ};
ghost use Rattle.pliron_dialect.specs.Roles.{Tables, KeepsTables, form_of, knows_in, identity_in, truth_in, choice_in, named_by};

use crate::form::Form;
use crate::identity::Identity;
use pliron_core::{AttrObj, Head};

/// The kinds of a dialect: `ByRoles` of them is the dialect.
pub trait Roles: Copy + Eq {
    // the role of each kind, its number, the kind with a number, the kinds of constants and jumps, what is given where
    // no table says it, which operations of a kind there may be beyond its role, and what folding and `verify` ask
    ghost tables: { Tables Self };

    /// The number of the kind in a head.
    fn number(self) -> u32
        ensures { result ≡ tables.number_of self };

    /// The kind with this number, if there is one.
    fn from_number(number: u32) -> Option<Self>
        ensures { result ≡ tables.kind_of number };

    /// The kind of the constants that folding makes.
    fn constant() -> Self
        ensures { result ≡ tables.constant };

    /// The kind of the jumps that branches become.
    fn jump() -> Self
        ensures { result ≡ tables.jump };

    /// The form of the operations of the kind.
    fn form(self) -> Form
        ensures { result ≡ form_of (tables.role_of self) };

    /// The number that an operation of the kind with this head computes of what is known of these, where that is enough.
    fn fold_numbers(self, head: &Head, numbers: &[Option<i128>]) -> Option<i128>
        ensures { result ≡ knows_in (tables.role_of self) head.now numbers.now };

    /// What leaves an operand of an operation of the kind with this head as it is, or gives one number.
    fn identity(self, head: &Head) -> Identity
        ensures { result ≡ identity_in (tables.role_of self) head.now };

    /// Whether an operation of the kind picks its second operand, by this number of its first one, where that decides
    /// it.
    fn picks(self, number: i128) -> Option<bool>
        ensures { result ≡ truth_in (tables.role_of self) number };

    /// The edge that a branch of the kind with this head and so many edges takes by this number, where that decides it.
    fn choose_edge(self, head: &Head, edges: usize, number: i128) -> Option<usize>
        ensures { result ≡ choice_in (tables.role_of self) head.now edges number };

    /// Whether there may be an operation of the kind with this head and these counts, beyond what its form asks.
    fn allows(
        self,
        head: &Head,
        operands: usize,
        results: usize,
        successors: usize,
        regions: usize,
    ) -> bool
        ensures { result ≡ tables.allows self head.now operands results successors regions };

    /// Whether definitions dominate uses in the regions of an operation of the kind: the mark of the heads that folding
    /// makes.
    fn is_ssa(self) -> bool
        ensures { result ≡ tables.is_ssa self };

    /// Whether a constant can be made of the attribute.
    fn accepts(attr: &AttrObj) -> bool
        ensures { result ≡ tables.accepts attr.now };

    /// Of so many operands the one, by its index, that each visit of the region passes as this argument of its entry,
    /// where a kind of the form `Names` names it; never for another kind.
    fn entry_operand(self, operands: usize, region: usize, argument: usize) -> Option<usize>
        ensures { result ≡ named_by (tables.role_of self) operands region argument };

    /// Whether `verify` asks of a branch of the kind that each edge passes as many values as its target has arguments.
    fn checks_edges(self) -> bool
        ensures { result ≡ tables.checks_edges self };

    // A number names its kind, constants and jumps are such and are allowed, and the role of each kind fits.
    ghost keeps_tables: { KeepsTables tables };
}
