//! Two blocks that are merged.
ghost use Rattle.pliron_rewrite_blocks.specs.Joining.{JoiningLaw};
ghost use Rattle.pliron_rewrite_blocks.specs.Reaching.{ReachingLaw};

use pliron_laws::Dialect;

/// Erasing the jump of a mergeable pair, moving the second block's operations to the end of the first
/// one, and erasing the second block keeps runs, where the second block's arguments have no uses.
pub fn pairs_are_joined<D: Dialect>()
    ensures { JoiningLaw D.meaning }
{}

/// Merging two blocks keeps which blocks lead to which, but for the erased one.
pub fn reach_is_kept()
    ensures { ReachingLaw }
{}
