//! What rules ask of a dialect, under one name.
ghost use Rattle.pliron_rewrite_rules.specs.Tables.{RuleTables};

use pliron_laws::Dialect;

/// What rules depend on in a dialect: its meaning, which heads have side effects, which fold by constants and to what, and
/// which constants it makes. Each dialect has it; contracts alone speak of it.
pub trait HasRuleTables {
    ghost rule_tables: { RuleTables };
}

impl<D: Dialect> HasRuleTables for D {
    ghost rule_tables = { record {
      meaning = D.meaning;
      side_effects = D.side_effects;
      can_fold = D.can_fold;
      constants = D.constants;
      accepts = D.accepts;
      constant_head = D.constant_head;
    } };
}
