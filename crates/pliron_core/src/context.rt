//! The tables of a tree.
ghost use Rattle.std.specs.Prelude.{◌≡◌, ◌≤◌, [], length};
ghost use Rattle.pliron_core.specs.Keys.{key_limit};
ghost use Rattle.pliron_core.specs.Invariant.{IsTree, HaveUses, HaveFewKeys};
ghost use Rattle.pliron_core.specs.Writes.{no_tree};

mod block_reads;
mod contained;
mod create;
mod edge_reads;
pub(crate) mod edit;
mod empty;
pub(crate) mod erase;
mod operation_reads;
pub(crate) mod place;
mod region_reads;
mod value_reads;
mod walk;

use crate::arguments::Arguments;
use crate::attrs::Head;
use crate::inline_list::InlineList;
use crate::keys::{BasicBlock, Operation, Ptr, Region, Value};
use crate::links::Links;
use crate::uses::Uses;
use std::alloc::{AllocError, Global};
use std::marker::Model;

/// Allocation failure: memory that was asked for was refused.
#[derive(Clone, Copy, Debug, Drop, PartialEq, Eq)]
pub struct NoMemory;

impl From<AllocError> for NoMemory {
    fn from(_: AllocError) -> Self {
        NoMemory
    }
}

/// What defines a value: it is the result of an operation at this index, or the argument of a block.
#[derive(Clone, Copy, Debug, PartialEq, Eq)]
pub enum Def {
    Result(Ptr<Operation>, usize),
    Argument(Ptr<BasicBlock>, usize),
}

/// The place of a region: its operation, and the index among that operation's regions.
#[derive(Clone, Copy, Debug, PartialEq, Eq)]
pub struct RegionSlot {
    pub op: Ptr<Operation>,
    pub index: usize,
}

/// An operation's own part. An erased operation has no head.
#[derive(Drop)]
pub struct OperationEntry {
    pub head: Option<Head>,
    pub results: InlineList<Value>,
    pub regions: InlineList<Ptr<Region>>,
}

/// Operations, blocks, regions and values, each named by its handle.
///
/// A handle is an index into each table of its kind, and no handle is given out twice. A context gives out at most
/// 4,294,967,295 handles of each kind in its life, those of what was erased among them; a call that needs one more
/// answers `NoMemory`:
///
/// ```text
/// operation o   operations[o] = head, results, regions      operands:   o -> values, and back
///               order: the list (a block) that has o        successors: o -> blocks, and back
/// block b       arguments: b -> values, and back            layout: the list (a region) that has b
/// region r      slots[r] = its operation, its index there   layout: list r, its blocks
/// value v       arguments: what defines v                   operands: the uses of v
/// ```
#[derive(Drop)]
pub struct Context {
    alloc: Global,
    operations: Vec<OperationEntry>,
    operands: Uses,
    successors: Uses,
    order: Links,
    arguments: Arguments,
    layout: Links,
    slots: Vec<RegionSlot>,
}

impl Model for Context {
    ghost use Rattle.pliron_core.specs.Tree.{View};

    ghost Value = { View };

    ghost use Rattle.pliron_core.specs.UseTables.{view_of, IsSoundContext};

    ghost view = { view_of };

    ghost invariant = { IsSoundContext };
}

impl Context {
    /// An empty context, which keeps the allocator for its growths. Takes no memory. Cost: constant.
    pub fn new(alloc: Global) -> Self
        ensures { result ≡ record { tree = no_tree; value_uses = []; block_uses = [] } }
    {
        Context {
            alloc,
            operations: Vec::new(alloc),
            operands: Uses::new(alloc),
            successors: Uses::new(alloc),
            order: Links::new(alloc),
            arguments: Arguments::new(alloc),
            layout: Links::new(alloc),
            slots: Vec::new(alloc),
        }
    }

    /// Makes room for so many more operations, blocks and values, which then grow no table as they are made.
    ///
    /// Errors: allocation failure. The tree stays as it was, with an error too. Cost: linear in the tables'
    /// length, which grow so that room asked for one by one is constant each, amortised.
    pub fn reserve(
        &mut self,
        operations: usize,
        blocks: usize,
        values: usize,
    ) -> Result<(), NoMemory>
        ensures { self.new ≡ self.old }
    {
        self.operations.reserve(operations)?;
        self.operands.reserve(operations, values)?;
        self.successors.reserve(operations, blocks)?;
        self.order.reserve(operations, blocks)?;
        self.layout.reserve(blocks, 0)?;
        self.arguments.reserve(blocks, values)?;
        Ok(())
    }

    /// The law of every context: its tables are those of a tree, its lists of uses have each use once, and
    /// the handles of each kind that were ever given out are fewer than 2^64 (at most 4,294,967,295, as `Context`
    /// says). It changes nothing. Cost: constant.
    pub fn well_formed(&self)
        ensures tree { IsTree self.now.tree }
        ensures uses { HaveUses self.now }
        ensures keys { HaveFewKeys self.now.tree }
    {
        let _ = self.operations.len();
        let _ = self.arguments.num_blocks();
        let _ = self.slots.len();
        let _ = self.arguments.num_values();
        self.order.agree();
        self.layout.agree();
        self.operands.agree();
        self.successors.agree();
    }

    // The law of handles: each block has one. It changes nothing.
    fn few_blocks(&self)
        ensures { length self.now.tree.bodies ≤ key_limit }
    {
        self.order.few_lists();
    }
}
