//! The theory of inlined calls.
//!
//! As in the theory of runs, a call here does nothing when it runs: its contract is a law, for every meaning and every
//! calling convention.
//!
//! It knows linked runs and the laws of dialects, and no graph, no dialect and no optimisation.
#![tactic(auto)]

ghost use Rattle.pliron_rewrite_inlining.specs.InlinedBeside.{InlinedRootsLaw};
ghost use Rattle.pliron_rewrite_inlining.specs.InliningLaws.{InliningKeepsLaw, InliningLaw, LinkedByLaws};

/// A call may become a jump to a copy of its callee's blocks. In the place of each return the copy jumps to what
/// stands behind the call. Linked runs show the same, with recursion, and with callbacks by the world.
pub fn calls_are_inlined()
    ensures { InliningLaw }
{}

/// "Linked runs are kept by linkers of these names" is transitive. It follows from "linked runs are kept", which
/// passes promise, and holds of more names.
pub fn linked_runs_kept_by_name()
    ensures { LinkedByLaws }
{}

/// Where a call is inlined and roots stay fit, linked runs are kept where its name stands for the callee.
pub fn inlined_calls_keep_linked_runs()
    ensures { InliningKeepsLaw }
{}

/// Where a call is inlined beside itself and the callee is fit to run, each root that is fit stays so: what the copies
/// use is dominated as in the callee, and all else as before.
pub fn inlined_roots_stay_fit()
    ensures { InlinedRootsLaw }
{}
