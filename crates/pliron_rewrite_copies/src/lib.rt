//! The theory of copies of blocks: what loops and inlined calls share.
//!
//! As in the theory of runs, a call here does nothing when it runs: its contract is a law, for every meaning.
//!
//! It knows the theory of runs and the laws of dialects, and no graph, no dialect and no optimisation.
#![tactic(auto)]

ghost use Rattle.pliron_rewrite_copies.specs.Adding.{AddingLaw, RenamingBackLaw};
ghost use Rattle.pliron_rewrite_copies.specs.ClosedBlock.{ClosedBlockLaw};
ghost use Rattle.pliron_rewrite_copies.specs.CopyLaws.{CopiesLaw, JoinedCopiesLaw};
ghost use Rattle.pliron_rewrite_copies.specs.Making.{MakingBlocks};
ghost use Rattle.pliron_rewrite_copies.specs.Moving.{MovingLaw};
ghost use Rattle.pliron_rewrite_copies.specs.Splitting.{SplittingLaw};

/// Blocks may be copied, and edges to a block may lead to a copy of it, if each copy is entered at its header alone
/// and nothing outside a copy uses a value of it.
pub fn blocks_are_copied()
    ensures { CopiesLaw }
{}

/// A block whose values are used in it alone may be copied, as the header of a loop that is rotated, or a block that
/// edges are threaded through.
pub fn closed_blocks_are_copied()
    ensures { ClosedBlockLaw }
{}

/// Copies of blocks may go, where each edge to a copy leads to the block that it is a copy of.
pub fn copies_are_joined()
    ensures { JoinedCopiesLaw }
{}

/// An argument may be added to a block, where each operation that leads there forwards one more value, which it may
/// name.
pub fn arguments_are_added()
    ensures { AddingLaw }
{}

/// Operands that were renamed, as the uses of an argument that became uses of its one value, may become what they were
/// again: the uses of a value may become uses of an argument to which each edge forwards it.
pub fn operands_are_renamed_back()
    ensures { RenamingBackLaw }
{}

/// An edge to a block that only jumps may lead where that block jumps to, by an operation that acts alike at once.
pub fn edges_are_moved()
    ensures { MovingLaw }
{}

/// Blocks may be made that nothing leads to, with what is in them, where that is well defined.
pub fn blocks_are_made()
    ensures { MakingBlocks }
{}

/// A block may be split: its last operations become another block, to which a new jump leads.
pub fn blocks_are_split()
    ensures { SplittingLaw }
{}
