//! Pairs of blocks that may be merged.
ghost use Rattle.pliron_rewrite_blocks.specs.PairLaws.{PairLeads, ReplacingOne, NoNewPair, NoNewPairByUses};

use pliron_laws::Dialect;

/// Nothing but the jump of a mergeable pair leads to its second block.
pub fn pairs_lead_alone()
    ensures { PairLeads }
{}

/// The uses of an argument of the second block may become uses of the value that is forwarded to it, and the
/// pair stays mergeable.
pub fn arguments_are_replaced<D: Dialect>()
    ensures { ReplacingOne D.meaning }
{}

/// Merging makes no pair whose first block is another one, so that a block that was merged until no pair
/// with it was left needs no second visit.
pub fn merging_makes_no_pair()
    ensures joined { NoNewPair }
    ensures replaced { NoNewPairByUses }
{}
