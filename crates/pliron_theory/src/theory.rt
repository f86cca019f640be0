//! The theory of runs, as calls that do nothing when they run: each contract is a law, for every
//! dialect that keeps the laws which it names.
ghost use Rattle.pliron_theory.specs.Answered.{AnsweredLaw};
ghost use Rattle.pliron_theory.specs.Refolded.{RefoldingLaw};
ghost use Rattle.pliron_theory.specs.Folded.{BranchFoldsLaw, BranchLinksLaw, BranchOutcomesLaw, ConstantFoldsLaw};
ghost use Rattle.pliron_theory.specs.ChosenRoots.{ChosenRootsLaw};
ghost use Rattle.pliron_theory.specs.Change.{PassLaws};
ghost use Rattle.pliron_theory.specs.Whole.{WholeLaws};
ghost use Rattle.pliron_theory.specs.Edges.{EdgeLaws};
ghost use Rattle.pliron_theory.specs.Knowing.{FactsLaw};
ghost use Rattle.pliron_theory.specs.Sound.{SoundFactsLaw, ClosedFactsLaw};
ghost use Rattle.pliron_theory.specs.Following.{FollowingLaws};
ghost use Rattle.pliron_theory.specs.Rewrites.{FirstKeepsLinks};
ghost use Rattle.pliron_laws.specs.LinkLaws.{FoldsKeepLinks};
ghost use Rattle.pliron_theory.specs.RunLaws.{KeepingLaws, FewerRootsLaw, OperandsHaveData, SweepingLaws, MakingLaws, RenamingLaws, SplicingLaw, OneEdgeLaw, RebranchingLaw, DroppingLaw, RemovingLaw};

use crate::folding::HasFolding;
use pliron_laws::Dialect;

/// "Runs are kept" is reflexive and transitive, and doesn't depend on erased handles.
pub fn runs_kept()
    ensures { KeepingLaws }
{}

/// What keeps the runs of roots keeps those of roots with fewer heads. A dialect's meaning says which
/// heads may be those of roots; where a rewrite is right for some of them alone, its promise is about the
/// same meaning with these heads, and other promises are brought there by this law.
pub fn fewer_roots_kept()
    ensures { FewerRootsLaw }
{}

/// The laws of a dialect on runs, those of the calls below that name it, hold whatever heads are chosen
/// to be those of roots.
pub fn roots_may_be_chosen<D: Dialect>()
    ensures { ChosenRootsLaw D.meaning D.can_fold D.can_fold_branch D.constants D.feasible D.shortened D.removable
        D.ConstFoldInterface.outcome D.BranchOpFoldInterface.outcome }
{}

/// In a root that is fit to run, each operand has a datum when an operation first reads it.
pub fn operands_have_data()
    ensures { OperandsHaveData }
{}

/// Operations that give at once, and blocks that no run comes to, may be erased with their contents where
/// nothing that is left names them.
pub fn dead_parts_go()
    ensures { SweepingLaws }
{}

/// Operations that use nothing and give at once may be made and put into blocks: a constant before
/// an operation, or first in a block.
pub fn constants_are_made()
    ensures { MakingLaws }
{}

/// Operands may be renamed to values that have the same data wherever they are read.
pub fn operands_are_renamed()
    ensures { RenamingLaws }
{}

/// Constants that closed lattice values give are what every run reads: each one of a result is what folding its
/// operation answers, if the operands have the constants that are known of them, and nothing is known of the
/// arguments of blocks.
pub fn facts_are_read<D: Dialect>()
    ensures { FactsLaw D.meaning D.can_fold D.constants }
{}

/// A block may be merged into the end of its only predecessor, whose last operation jumps there at once.
pub fn blocks_are_joined()
    ensures { SplicingLaw }
{}

/// A branch of the dialect with one edge jumps there at once.
pub fn one_edge_is_taken<D: Dialect>()
    ensures { OneEdgeLaw D.meaning }
{}

/// A branch may be replaced by another one that acts alike.
pub fn branches_are_replaced()
    ensures { RebranchingLaw }
{}

/// A constant that folding answers for a result with no operand known is what every run reads.
pub fn answers_are_read<D: Dialect>()
    ensures { AnsweredLaw D.meaning D.can_fold D.constants }
{}

/// A branch may be folded by constants that every run reads of its operands.
pub fn branches_are_refolded()
    ensures { RefoldingLaw }
{}

/// Each outcome of a dialect's fold by constants in place keeps runs, also after allocation failure, where the
/// given constants are what every run reads of the operands.
pub fn constant_folds_keep_runs<D: Dialect>()
    ensures { ConstantFoldsLaw D.meaning D.can_fold D.ConstFoldInterface.outcome }
{}

/// Each outcome of a dialect's fold of a branch in place keeps runs, also after allocation failure, where the
/// given constants are what every run reads of its operands.
pub fn branch_folds_keep_runs<D: Dialect>()
    ensures { BranchFoldsLaw D.meaning D.can_fold_branch D.BranchOpFoldInterface.outcome }
{}

/// After each outcome of a dialect's fold of a branch in place the tree is well linked at each root where it
/// was, and which is still live.
pub fn branch_folds_keep_links<D: Dialect>()
    ensures { BranchLinksLaw D.meaning D.can_fold_branch D.BranchOpFoldInterface.outcome }
{}

/// Each outcome of a dialect's fold of a branch in place is the same tree but for erased handles, or another
/// branch is in its place.
pub fn branch_folds_replace<D: Dialect>()
    ensures { BranchOutcomesLaw D.meaning D.can_fold_branch D.BranchOpFoldInterface.outcome }
{}

/// An argument of a block may be removed with the operands that are forwarded to it, where nothing else uses it
/// and what leads to the block acts alike without them.
pub fn arguments_go()
    ensures { DroppingLaw }
{}

/// An argument of a block may be removed after each edge to the block lost the operand that it forwarded to it,
/// where the dialect lets it be removed and nothing else uses it.
pub fn unused_arguments_go<D: Dialect>()
    ensures { RemovingLaw D.meaning D.shortened D.removable }
{}

/// A tree that is well linked at a root is so after constants were put for results of an operation.
pub fn folds_keep_links()
    ensures { FoldsKeepLinks }
{}

/// What passes do to a tree is reflexive and transitive, and doesn't depend on erased handles; it holds of the
/// parent operation of theirs too, and leaves each operation that was well linked, and is still live, well
/// linked.
pub fn passes_compose()
    ensures { PassLaws }
{}

/// What passes do that keep the runs of all roots, whatever their heads, is reflexive and transitive, and
/// doesn't depend on erased handles; it holds of the parent operation of theirs too.
pub fn whole_passes_compose()
    ensures { WholeLaws }
{}

/// Edges inside operations stay where blocks keep their successors and their operations with regions: where
/// only erased handles are new, and where a constant is put. Two changes that keep edges keep them together.
pub fn edges_stay()
    ensures { EdgeLaws }
{}

/// A tree that is well linked at a root is so after a constant was put first in a block for a value.
pub fn constants_first_keep_links()
    ensures { FirstKeepsLinks }
{}

/// What sound lattice values inside an operation say of values that are defined in executable blocks, every run
/// of every root that is fit to run reads.
pub fn sound_facts_are_read<D: Dialect>()
    ensures { SoundFactsLaw ⟦<D as HasFolding>⟧.folding }
{}

/// What closed lattice values (a fixpoint) inside an operation say of values that are defined in executable
/// blocks, and what folding answers there by them, every run of every root that is fit to run reads.
pub fn closed_facts_are_read<D: Dialect>()
    ensures { ClosedFactsLaw ⟦<D as HasFolding>⟧.folding }
{}

/// Lattice values that are closed on a tree stay valid while constants are put by them: what was known of the
/// first tree may be given to each later fold.
pub fn facts_are_followed<D: Dialect>()
    ensures { FollowingLaws ⟦<D as HasFolding>⟧.folding D.accepts D.constant_head }
{}
