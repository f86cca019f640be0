//! Blocks that are erased.
ghost use Rattle.pliron_rewrite_blocks.specs.Cutting.{CuttingLaw};
ghost use Rattle.pliron_rewrite_blocks.specs.Leaving.{LeavingLaw};

/// Blocks of one region that are erased one after the other are erased with their contents, and nothing else
/// changed but the region's layout.
pub fn blocks_are_erased()
    ensures { CuttingLaw }
{}

/// Blocks that nothing that is left leads to or uses may be erased in one rewrite: their uses are dropped,
/// whatever they use of one another, and then they are erased.
pub fn blocks_go()
    ensures { LeavingLaw }
{}
