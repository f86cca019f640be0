//! Sets of rules.
ghost use Rattle.std.specs.Prelude.{◌≡◌, false, List, Option, None, IfOk, IsOkUnless};
ghost use Rattle.pliron_rewrite_rules.specs.declared.view.Operand.{Operand as OperandOf};
ghost use Rattle.pliron_rewrite_rules.specs.declared.view.View.{View as ViewOf};
ghost use Rattle.pliron_rewrite_rules.specs.declared.term.Term.{Term as TermOf};
ghost use Rattle.pliron_rewrite_rules.specs.RuleLaws.{RulesHold};

use crate::term::Term;
use crate::view::View;
use pliron_core::Head;
use pliron_laws::{Dialect, OptError};
use std::alloc::Global;

/// A set of rules for the operations of the dialect `D`.
///
/// The table `rules` has a clause for each rule, from a view to a term; it may read no more than what the view shows:
/// heads, constants, and which values are one. The law `rules_hold` asks that a term is built of values of the view, of
/// constants that the dialect makes and of pure operations that it has, and that it has the datum of the view.
pub trait Rules<D: Dialect> {
    // the term for a view
    ghost rules: { ViewOf → Option TermOf };

    /// Whether some rule may answer a term for an operation with this head. No view of another is made. Here: any may.
    /// Cost: constant.
    fn may_apply(_head: &Head) -> bool
        ensures { result ≡ false → (operands : List OperandOf) → rules (record {
          head = _head.now;
          operands = operands;
        }) ≡ None }
    {
        true
    }

    /// What has the uses of the result, if some rule applies. Errors: allocation failure.
    fn rewrite(alloc: Global, view: &View) -> Result<Option<Term>, OptError>
        ensures ok { IfOk result (λ term. term ≡ rules view.now) }
        ensures memory { IsOkUnless result OptError.Memory };

    // The term of each view has its datum.
    ghost rules_hold: { RulesHold D.meaning D.side_effects D.accepts rules };
}
