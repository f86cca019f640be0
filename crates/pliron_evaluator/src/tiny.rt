//! A small lawful dialect, as a pattern: a constant, a question to the outside world, a scope whose
//! region is visited once, a branch that forwards its operands, and two kinds that visit their regions
//! with operands that they name.
//!
//! A constant has one attribute and gives its datum. A question has one operand, passes it to the outside world and
//! gives the answer. A scope visits its region once with its operands, cut or filled to the arguments of the entry
//! block, and gives nothing. A branch jumps to its one successor, with all its operands.
//!
//! A `Both` visits its first region with its operand 1 for the first argument of the entry block, then its
//! second region with nothing of its operands, and gives nothing. A `Twice` visits its region with its
//! operand 0 for that argument, then once more with the same, and gives nothing. What has no datum of its
//! own to get is `Empty`.
//!
//! Both keep their stage in the memo: it is `Empty` at first, a `Join` between the two visits, and a number
//! after them. The `Join` of a `Twice` has the datum of operand 0 as its first part, so each datum can be
//! kept there, an `Empty` or a `Join` too.
ghost use Rattle.std.specs.Prelude.{◌≡◌, Ok, ℕ, Some, IfOk, slice_get};
ghost use Rattle.pliron_core.specs.Tree.{IsLive, IsBlock, block_parent_of, operands_of};
ghost use Rattle.pliron_laws.specs.Answers.{ReadsHead, is_entry};
ghost use Rattle.pliron_laws.specs.OperandFolding.{no_operand_folds, none_answered};
ghost use Rattle.pliron_evaluator.specs.Tiny.{tiny_number_of, tiny_kind_of, is_br, is_const, first_attribute, tiny, tiny_side_effects, tiny_removable, tiny_folds};
ghost use Rattle.pliron_evaluator.specs.Tiny.{tiny_constants, tiny_accepts, tiny_constant, tiny_folds_branch, tiny_feasible, tiny_outcome, has_tiny_kind, has_tiny_interface, tiny_shortened, is_naming_kind, first_entry_operand, tiny_entry_operands};
ghost use Rattle.pliron_evaluator.specs.TinyLaws.{tiny_counts, tiny_effects, tiny_forwards, tiny_arguments, tiny_answers, tiny_jumps, tiny_in_place, tiny_makes};
ghost use Rattle.pliron_evaluator.specs.TinyEntries.{tiny_names, tiny_roots};

use pliron_core::{
    AttrObj, Attrs, BasicBlock, Context, Head, IRStatus, NoMemory, Operation, Ptr, Rewriter, Value,
};
use pliron_laws::reads::all_operands;
use pliron_laws::{
    BlockArgRemoval, BranchOpFoldInterface, ConstFoldInterface, Dialect, HasMeaning, Interface,
    OpFoldResult, OperandFoldInterface, OptError, RegionBranchOpInterface, Room, SideEffects,
};
use std::alloc::Global;

/// The dialect.
pub struct Tiny;

/// The kinds of its operations.
#[derive(Clone, Copy, Debug, PartialEq, Eq)]
pub enum TinyKind {
    Const,
    Ask,
    Scope,
    Br,
    /// Two regions, any operands; names operand 1, where it is there, for the first argument of the first.
    Both,
    /// One region, at least one operand; names operand 0 for the first argument.
    Twice,
}

impl TinyKind {
    /// The number that stands for the kind in a head. Cost: constant.
    pub fn number(self) -> u32
        ensures { result ≡ tiny_number_of self }
    {
        match self {
            TinyKind::Const => 0,
            TinyKind::Ask => 1,
            TinyKind::Scope => 2,
            TinyKind::Br => 3,
            TinyKind::Both => 4,
            TinyKind::Twice => 5,
        }
    }

    /// The kind with this number, if there is one. Cost: constant.
    pub fn of(number: u32) -> Option<TinyKind>
        ensures { result ≡ tiny_kind_of number }
    {
        match number {
            0 => Some(TinyKind::Const),
            1 => Some(TinyKind::Ask),
            2 => Some(TinyKind::Scope),
            3 => Some(TinyKind::Br),
            4 => Some(TinyKind::Both),
            5 => Some(TinyKind::Twice),
            _ => None,
        }
    }
}

// The kind of the operation, if it is one of this dialect.
fn kind_at(op: Ptr<Operation>, ctx: &Context) -> Option<TinyKind>
    requires { IsLive ctx.now.tree op }
    ensures { ReadsHead (λ h. tiny_kind_of h.kind) ctx.now.tree op result }
{
    TinyKind::of(op.head(ctx).kind)
}

// Whether the kind is that of a constant, that of a branch.
fn is_constant(kind: Option<TinyKind>) -> bool
    ensures { result ≡ is_const kind }
{
    matches!(kind, Some(TinyKind::Const))
}

fn is_jump(kind: Option<TinyKind>) -> bool
    ensures { result ≡ is_br kind }
{
    matches!(kind, Some(TinyKind::Br))
}

// Whether operations of the kind name operands for their regions.
fn is_naming(kind: Option<TinyKind>) -> bool
    ensures { result ≡ is_naming_kind kind }
{
    matches!(kind, Some(TinyKind::Both | TinyKind::Twice))
}

// Whether the block is the entry of its region.
fn begins_region(ctx: &Context, block: Ptr<BasicBlock>) -> bool
    requires { IsBlock ctx.now.tree block }
    ensures { (r : ℕ) → block_parent_of ctx.now.tree block ≡ Some r → result ≡ is_entry ctx.now.tree r block }
{
    match block.get_parent_region(ctx) {
        Some(region) => match region.get_head(ctx) {
            Some(entry) => block == entry,
            None => false,
        },
        None => false,
    }
}

// The first of the attributes, by default 0.
fn first_of_attrs(alloc: Global, attrs: &Attrs) -> Result<AttrObj, NoMemory>
    ensures { IfOk result (λ attr. attr ≡ first_attribute attrs.now) }
{
    if attrs.is_empty() {
        Ok(AttrObj::Int(0))
    } else {
        attrs.get(0).copy(alloc)
    }
}

// The operand, of so many, that every visit passes for the first argument of the first region's entry.
fn first_entry_operand(kind: Option<TinyKind>, operands: usize) -> Option<usize>
    ensures { result ≡ first_entry_operand kind operands }
{
    match kind? {
        TinyKind::Both if operands > 1 => Some(1),
        TinyKind::Twice => Some(0),
        _ => None,
    }
}

// The operand at place `j`, if there are so many.
fn operand_at(op: Ptr<Operation>, ctx: &Context, j: usize) -> Option<Value>
    requires { IsLive ctx.now.tree op }
    ensures { result ≡ slice_get (operands_of ctx.now.tree op) j }
{
    if j < op.num_operand(ctx) {
        Some(op.get_operand(ctx, j))
    } else {
        None
    }
}

impl HasMeaning for Tiny {
    ghost meaning = { tiny };
}

impl SideEffects for Tiny {
    ghost verdict = { λ t op r. r ≡ Ok tt };

    ghost side_effects = { tiny_side_effects };

    #[tactic(auto, unfolding(crate::specs::Tiny::tiny_side_effects))]
    fn has_side_effects(op: Ptr<Operation>, ctx: &Context) -> Option<bool> {
        match kind_at(op, ctx)? {
            TinyKind::Const => Some(false),
            TinyKind::Ask => Some(true),
            TinyKind::Scope => Some(true),
            TinyKind::Br => None,
            TinyKind::Both => Some(true),
            TinyKind::Twice => Some(true),
        }
    }

    fn verify(_alloc: Global, _op: Ptr<Operation>, _ctx: &Context) -> Result<(), OptError> {
        Ok(())
    }
}

impl BlockArgRemoval for Tiny {
    ghost verdict = { λ t op r. r ≡ Ok tt };

    ghost removable = { tiny_removable };

    #[tactic(auto, unfolding(crate::specs::Tiny::tiny_removable))]
    fn can_remove_block_args(
        op: Ptr<Operation>,
        ctx: &Context,
        block: Ptr<BasicBlock>,
    ) -> Option<bool> {
        match kind_at(op, ctx)? {
            TinyKind::Scope | TinyKind::Both | TinyKind::Twice => {
                Some(!begins_region(ctx, block))
            }
            _ => None,
        }
    }

    fn verify(_alloc: Global, _op: Ptr<Operation>, _ctx: &Context) -> Result<(), OptError> {
        Ok(())
    }
}

impl ConstFoldInterface for Tiny {
    ghost verdict = { λ t op r. r ≡ Ok tt };

    ghost can_fold = { tiny_folds };

    ghost constants = { tiny_constants };

    ghost accepts = { tiny_accepts };

    ghost constant_head = { tiny_constant };

    ghost outcome = { tiny_outcome };

    #[tactic(auto, unfolding(crate::specs::Tiny::tiny_folds))]
    fn folds(op: Ptr<Operation>, ctx: &Context) -> bool {
        is_constant(kind_at(op, ctx))
    }

    #[tactic(auto, using(crate::proofs::TinyLemmas::constants_of))]
    fn check_fold(
        alloc: Global,
        op: Ptr<Operation>,
        ctx: &Context,
        _operand_attrs: &[Option<AttrObj>],
    ) -> Result<Vec<Option<AttrObj>>, OptError> {
        let attr = first_of_attrs(alloc, &op.head(ctx).attrs)?;
        let mut answers = Vec::new(alloc);
        answers.push(Some(attr))?;
        Ok(answers)
    }

    #[tactic(auto, unfolding(crate::specs::Tiny::tiny_outcome))]
    fn fold_in_place<R: Rewriter + Room>(
        _alloc: Global,
        _op: Ptr<Operation>,
        _ctx: &mut Context,
        _operand_attrs: &[Option<AttrObj>],
        _rewriter: &mut R,
    ) -> Result<IRStatus, OptError> {
        Ok(IRStatus::Unchanged)
    }

    #[tactic(auto, unfolding(crate::specs::Tiny::tiny_accepts, crate::specs::Tiny::tiny_constant))]
    fn materialize(
        alloc: Global,
        attr: &AttrObj,
        ctx: &mut Context,
    ) -> Result<Option<Ptr<Operation>>, OptError> {
        let mut attrs = Vec::new(alloc);
        attrs.push(attr.copy(alloc)?)?;
        let head = Head {
            kind: TinyKind::Const.number(),
            ssa: true,
            attrs: Attrs::new(attrs),
        };
        Ok(Some(Operation::create(ctx, head, 1, 0)?))
    }

    fn verify(_alloc: Global, _op: Ptr<Operation>, _ctx: &Context) -> Result<(), OptError> {
        Ok(())
    }
}

impl BranchOpFoldInterface for Tiny {
    ghost verdict = { λ t op r. r ≡ Ok tt };

    ghost can_fold_branch = { tiny_folds_branch };

    ghost feasible = { tiny_feasible };

    ghost outcome = { tiny_outcome };

    #[tactic(auto, unfolding(crate::specs::Tiny::tiny_folds_branch))]
    fn folds_branch(_op: Ptr<Operation>, _ctx: &Context) -> bool {
        false
    }

    #[tactic(auto, unfolding(crate::specs::Tiny::tiny_feasible))]
    fn check_fold(
        alloc: Global,
        _op: Ptr<Operation>,
        _ctx: &Context,
        _operand_attrs: &[Option<AttrObj>],
    ) -> Result<Vec<Ptr<BasicBlock>>, OptError> {
        Ok(Vec::new(alloc))
    }

    #[tactic(auto, unfolding(crate::specs::Tiny::tiny_outcome))]
    fn fold_in_place<R: Rewriter + Room>(
        _alloc: Global,
        _op: Ptr<Operation>,
        _ctx: &mut Context,
        _operand_attrs: &[Option<AttrObj>],
        _rewriter: &mut R,
    ) -> Result<IRStatus, OptError> {
        Ok(IRStatus::Unchanged)
    }

    fn verify(_alloc: Global, _op: Ptr<Operation>, _ctx: &Context) -> Result<(), OptError> {
        Ok(())
    }
}

impl OperandFoldInterface for Tiny {
    ghost operand_folds = { no_operand_folds };

    fn fold_to_operand(
        alloc: Global,
        _op: Ptr<Operation>,
        _ctx: &Context,
        _operand_attrs: &[Option<AttrObj>],
    ) -> Result<Vec<Option<OpFoldResult>>, OptError> {
        Ok(Vec::new(alloc))
    }
}

impl RegionBranchOpInterface for Tiny {
    ghost verdict = { λ t op r. r ≡ Ok tt };

    ghost entry_operands = { tiny_entry_operands };

    /// For the first argument of the first region: of a `Both` operand 1, where there is one, and of a
    /// `Twice` operand 0. Cost: constant.
    #[tactic(auto, using(crate::proofs::TinyLemmas::entry_named, crate::proofs::TinyLemmas::other_region, crate::proofs::TinyLemmas::other_argument))]
    fn entry_operand(
        op: Ptr<Operation>,
        ctx: &Context,
        region: usize,
        arg: usize,
    ) -> Option<usize> {
        if region == 0 && arg == 0 {
            first_entry_operand(kind_at(op, ctx), op.num_operand(ctx))
        } else {
            None
        }
    }

    fn verify(_alloc: Global, _op: Ptr<Operation>, _ctx: &Context) -> Result<(), OptError> {
        Ok(())
    }
}

impl Dialect for Tiny {
    type Kind = TinyKind;

    ghost is_of_kind = { has_tiny_kind };

    ghost has_interface = { has_tiny_interface };

    ghost shortened = { tiny_shortened };

    #[tactic(auto, unfolding(crate::specs::Tiny::has_tiny_kind))]
    fn is_kind(op: Ptr<Operation>, ctx: &Context, kind: TinyKind) -> bool {
        op.head(ctx).kind == kind.number()
    }

    #[tactic(auto, unfolding(crate::specs::Tiny::has_tiny_interface))]
    fn implements(op: Ptr<Operation>, ctx: &Context, interface: Interface) -> bool {
        let kind = kind_at(op, ctx);
        match interface {
            Interface::SideEffects => match kind {
                Some(TinyKind::Const) => true,
                Some(TinyKind::Ask) => true,
                Some(TinyKind::Scope | TinyKind::Both | TinyKind::Twice) => true,
                _ => false,
            },
            Interface::BlockArgRemoval => {
                matches!(
                    kind,
                    Some(TinyKind::Scope | TinyKind::Both | TinyKind::Twice)
                )
            }
            Interface::ConstFold => is_constant(kind),
            Interface::BranchFold => false,
            Interface::Branch => is_jump(kind),
            Interface::Terminator => is_jump(kind),
            Interface::RegionBranch => is_naming(kind),
        }
    }

    #[tactic(auto, unfolding(crate::specs::Tiny::tiny))]
    fn admits(op: Ptr<Operation>, ctx: &Context) -> bool {
        let operands = op.num_operand(ctx);
        let results = op.num_result(ctx);
        let successors = op.num_successor(ctx);
        let regions = op.num_region(ctx);
        match kind_at(op, ctx) {
            Some(TinyKind::Const) => {
                operands == 0 && results == 1 && successors == 0 && regions == 0
            }
            Some(TinyKind::Ask) => {
                operands == 1 && results == 1 && successors == 0 && regions == 0
            }
            Some(TinyKind::Scope) => results == 0 && successors == 0 && regions == 1,
            Some(TinyKind::Br) => results == 0 && successors == 1 && regions == 0,
            Some(TinyKind::Both) => results == 0 && successors == 0 && regions == 2,
            Some(TinyKind::Twice) => {
                operands > 0 && results == 0 && successors == 0 && regions == 1
            }
            None => false,
        }
    }

    #[tactic(auto, unfolding(crate::specs::Tiny::tiny))]
    fn is_terminator(op: Ptr<Operation>, ctx: &Context) -> bool {
        is_jump(kind_at(op, ctx))
    }

    #[tactic(auto, unfolding(crate::specs::Tiny::tiny))]
    fn may_be_root(op: Ptr<Operation>, ctx: &Context) -> bool {
        !is_naming(kind_at(op, ctx))
    }

    #[tactic(auto, unfolding(crate::specs::Tiny::tiny))]
    fn is_branch(op: Ptr<Operation>, ctx: &Context) -> bool {
        Tiny::is_terminator(op, ctx)
    }

    #[tactic(auto, using(crate::proofs::TinyLemmas::all_forwarded, crate::proofs::TinyLemmas::none_forwarded))]
    fn successor_operands(
        alloc: Global,
        op: Ptr<Operation>,
        ctx: &Context,
        i: usize,
    ) -> Result<Vec<Value>, OptError> {
        if i == 0 {
            Ok(all_operands(alloc, op, ctx)?)
        } else {
            Ok(Vec::new(alloc))
        }
    }

    #[tactic(auto, using(crate::proofs::TinyLemmas::one_forwarded, crate::proofs::TinyLemmas::no_one_forwarded))]
    fn successor_operand(
        _alloc: Global,
        op: Ptr<Operation>,
        ctx: &Context,
        i: usize,
        j: usize,
    ) -> Result<Option<Value>, OptError> {
        if i != 0 {
            return Ok(None);
        }
        Ok(operand_at(op, ctx, j))
    }

    fn remove_successor_operand(
        op: Ptr<Operation>,
        ctx: &mut Context,
        _i: usize,
        j: usize,
    ) -> Value {
        Operation::remove_operand(ctx, op, j)
    }

    ghost keeps_counts = { tiny_counts };

    ghost gives_at_once = { tiny_effects };

    ghost forwards_operands = { tiny_forwards };

    ghost acts_without_argument = { tiny_arguments };

    ghost answers_true = { tiny_answers };

    ghost answers_operands = { none_answered tiny };

    ghost answers_jumps = { tiny_jumps };

    ghost folds_in_place = { tiny_in_place };

    ghost makes_constants = { tiny_makes };

    ghost names_operands = { tiny_names };

    ghost roots = { tiny_roots };
}
