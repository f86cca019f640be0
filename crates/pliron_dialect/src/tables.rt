//! What each form says: a table is one call.
ghost use Rattle.std.specs.Prelude.{◌≡◌, ℕ, Some, IsTrue};
ghost use Rattle.pliron_core.specs.Tree.{IsLive, IsBlock, block_parent_of};
ghost use Rattle.pliron_laws.specs.Answers.{ReadsHead, is_entry};
ghost use Rattle.pliron_dialect.specs.Roles.{ends_block as is_ending, branches as is_branching, effects_of, removable_of, is_naming, folds_of, folds_branch_of, interface_of, takes_form, has_some as is_some_attribute};
ghost use Rattle.pliron_dialect.specs.Roles.{role_at, form_at as form_by};

use crate::edge_ranges::counts_all;
use crate::form::{Form, Otherwise};
use crate::roles::Roles;
use pliron_core::{Attrs, BasicBlock, Context, Head, Operation, Ptr};
use pliron_laws::Interface;

// How many parts of each sort an operation has.
#[derive(Clone, Copy)]
pub(crate) struct PartCounts {
    pub(crate) operands: usize,
    pub(crate) results: usize,
    pub(crate) successors: usize,
    pub(crate) regions: usize,
}

/// The kind of the operation, if it has one. Asks that the operation is live (`is_live` tests it). Cost: that of
/// `from_number`.
pub fn kind_at<K: Roles>(op: Ptr<Operation>, ctx: &Context) -> Option<K>
    requires { IsLive ctx.now.tree op }
    ensures { ReadsHead (λ h. K.tables.kind_of h.kind) ctx.now.tree op result }
{
    K::from_number(op.head(ctx).kind)
}

/// The form of the operation, if it has one. Asks that the operation is live (`is_live` tests it). Cost: that of
/// `from_number`.
pub fn form_at<K: Roles>(op: Ptr<Operation>, ctx: &Context) -> Option<Form>
    requires { IsLive ctx.now.tree op }
    ensures { ReadsHead (λ h. form_by (role_at K.tables) h.kind) ctx.now.tree op result }
{
    match K::from_number(op.head(ctx).kind) {
        Some(kind) => Some(kind.form()),
        None => None,
    }
}

/// Whether the block is the entry of its region. Asks that the block is live. Cost: constant.
pub fn begins_region(ctx: &Context, block: Ptr<BasicBlock>) -> bool
    requires { IsBlock ctx.now.tree block }
    ensures { (r : ℕ) → block_parent_of ctx.now.tree block ≡ Some r → result ≡ is_entry ctx.now.tree r block }
{
    match block.get_parent_region(ctx) {
        Some(region) => match region.get_head(ctx) {
            Some(entry) => block == entry,
            None => false,
        },
        None => false,
    }
}

// Whether there is an attribute.
fn has_some(attrs: &Attrs) -> bool
    ensures { result ≡ is_some_attribute attrs.now }
{
    !attrs.is_empty()
}

impl Form {
    // Whether an operation of the form may have these attributes and counts.
    pub(crate) fn takes(self, head: &Head, counts: PartCounts) -> bool
        ensures { result ≡ takes_form self head.now counts.operands counts.results counts.successors counts.regions }
    {
        let PartCounts {
            operands,
            results,
            successors,
            regions,
        } = counts;
        let plain = results == 1 && successors == 0 && regions == 0;
        match self {
            Form::Constant => has_some(&head.attrs) && operands == 0 && plain,
            Form::Folds(count, _) => operands == count && plain,
            Form::Picks => operands == 3 && plain,
            Form::Opaque => successors == 0 && regions == 0,
            Form::Jumps => results == 0 && successors == 1 && regions == 0,
            Form::Chooses(counting) => {
                counts_all(counting, &head.attrs, successors, operands)
                    && results == 0
                    && successors > 1
                    && regions == 0
            }
            Form::Leaves => results == 0 && successors == 0 && regions == 0,
            Form::Stops => successors == 0,
            Form::Acts(_, _) | Form::Names => successors == 0,
            Form::Forks(_) => successors > 0,
            Form::Holds(_) => results == 0 && successors == 0,
        }
    }

    // Whether an operation of the form ends a block.
    pub(crate) fn ends_block(self) -> bool
        ensures { result ≡ is_ending self }
    {
        matches!(
            self,
            Form::Jumps | Form::Chooses(_) | Form::Leaves | Form::Stops | Form::Forks(_)
        )
    }

    // Whether an operation of the form is a branch.
    pub(crate) fn branches(self) -> bool
        ensures { result ≡ is_branching self }
    {
        matches!(self, Form::Jumps | Form::Chooses(_))
    }

    // Whether an operation of the form names operands that each visit of a region passes.
    pub(crate) fn names(self) -> bool
        ensures { result ≡ is_naming self }
    {
        matches!(self, Form::Names)
    }

    // Whether an operation of the form has side effects, if it says so.
    pub(crate) fn side_effects(self) -> Option<bool>
        ensures { result ≡ effects_of self }
    {
        match self {
            Form::Constant | Form::Picks | Form::Opaque => Some(false),
            Form::Folds(_, otherwise) => Some(matches!(otherwise, Otherwise::Traps)),
            Form::Names => Some(true),
            Form::Acts(says, _) | Form::Forks(says) => { if says { Some(true) } else { None } }
            Form::Holds(says) => { if says { Some(false) } else { None } }
            _ => None,
        }
    }

    // Whether arguments of an entry, of another block, may be removed, if the form says so.
    pub(crate) fn removable(self, entry: bool) -> Option<bool>
        ensures { result ≡ removable_of self entry }
    {
        match self {
            Form::Acts(_, removes) => { if removes { Some(!entry) } else { None } }
            Form::Names => Some(!entry),
            Form::Holds(says) => { if says { Some(true) } else { None } }
            _ => None,
        }
    }

    // Whether an operation of the form folds as a constant.
    pub(crate) fn folds(self) -> bool
        ensures { result ≡ folds_of self }
    {
        matches!(self, Form::Constant | Form::Folds(_, _) | Form::Picks)
    }

    // Whether an operation of the form folds as a branch.
    pub(crate) fn folds_branch(self) -> bool
        ensures { result ≡ folds_branch_of self }
    {
        matches!(self, Form::Chooses(_))
    }

    // Whether an operation of the form implements the interface.
    pub(crate) fn implements(self, interface: Interface) -> bool
        ensures { result ≡ interface_of interface self }
    {
        match interface {
            Interface::SideEffects => self.side_effects().is_some(),
            Interface::BlockArgRemoval => self.removable(true).is_some(),
            Interface::ConstFold => self.folds(),
            Interface::BranchFold => self.folds_branch(),
            Interface::Branch => self.branches(),
            Interface::Terminator => self.ends_block(),
            Interface::RegionBranch => self.names(),
        }
    }
}
