//! Branches that go at once.
ghost use Rattle.pliron_dialect.specs.Roles.{role_at, allows_at};
ghost use Rattle.pliron_dialect_edges.specs.AtOnce.{GoAtOnce, go_at_once as roles_go_at_once};

use pliron_dialect::{ByRoles, Roles};
use pliron_laws::HasMeaning;

/// Dialects whose branches go at once: at its first transition each goes along one of its edges, or traps.
pub trait BranchesAtOnce: HasMeaning {
    // At its first transition each branch goes along one of its edges, or traps.
    ghost go_at_once: { GoAtOnce Self.meaning };
}

/// Jumps and choices do nothing before they go.
impl<K: Roles> BranchesAtOnce for ByRoles<K> {
    ghost go_at_once = { roles_go_at_once K.tables.value (role_at K.tables) (allows_at K.tables) };
}
