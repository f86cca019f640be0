//! Changes that stay inside the parent operation of the blocks.
ghost use Rattle.pliron_rewrite_blocks.specs.Inside.{CutInsideLaw, JoinedInsideLaw, RebranchedInsideLaw, ReplacedInsideLaw};

/// Where blocks of a region were erased, nothing changed outside the parent operation of the region.
pub fn removing_changes_inside()
    ensures { CutInsideLaw }
{}

/// Where two blocks were merged, nothing changed outside their parent operation.
pub fn joining_changes_inside()
    ensures { JoinedInsideLaw }
{}

/// Where the uses of a block's argument became uses of another value, nothing changed outside an operation
/// around the block, but for operands that named the argument.
pub fn replacing_changes_inside()
    ensures { ReplacedInsideLaw }
{}

/// Where a branch was replaced by another one, nothing changed outside an operation that the branch is inside.
pub fn replacing_branches_changes_inside()
    ensures { RebranchedInsideLaw }
{}
