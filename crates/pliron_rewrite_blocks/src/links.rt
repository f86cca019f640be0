//! Trees that are well linked at a root, and stay so there, whether the root is fit to run or not.
ghost use Rattle.pliron_rewrite_blocks.specs.Links.{RenamedLinksLaw, ReplacedLinksLaw, SweptLinksLaw, ErasedLinksLaw, CutLinksLaw, JoinedLinksLaw, RebranchedLinksLaw, LosingLinks};

use pliron_laws::Dialect;

/// A tree that is well linked at a root is so after operands were replaced by other values, whatever these are.
pub fn renaming_keeps_links()
    ensures renamed { RenamedLinksLaw }
    ensures replaced { ReplacedLinksLaw }
{}

/// A tree that is well linked at a root is so after the erasure of operations and blocks that nothing which is
/// left names: an operation with its contents, or any of them.
pub fn erasing_keeps_links()
    ensures swept { SweptLinksLaw }
    ensures erased { ErasedLinksLaw }
{}

/// A tree that is well linked at a root is so after blocks were erased with their contents.
pub fn removing_keeps_links()
    ensures { CutLinksLaw }
{}

/// A tree that is well linked at a root is so after a block was merged into the end of its only predecessor.
pub fn joining_keeps_links()
    ensures { JoinedLinksLaw }
{}

/// A tree that is well linked at a root is so after another branch that the dialect admits took the place
/// of a branch.
pub fn replacing_branches_keeps_links()
    ensures { RebranchedLinksLaw }
{}

/// A tree that is well linked at a root is so after edges to a block, to which branches alone lead, lost
/// operands that they forward, and after the argument to which these were forwarded was removed.
pub fn losing_keeps_links<D: Dialect>()
    ensures { LosingLinks D.meaning D.shortened }
{}
