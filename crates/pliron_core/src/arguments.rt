//! The arguments of each block in order, and what defines each value.
ghost use Rattle.std.specs.Prelude.{◌≡◌, ℕ, ◌+◌, ◌<◌, ◌≤◌, ◌^◌, ◌++◌, ◌∷◌, [], length, drop, remove, slice_get, slice_set, Some, IsTrue, ◌↔◌, IfOk, OnOk, OnErr, vec_len, vec_capacity};
ghost use Rattle.std.specs.List.{range_with_len};
ghost use Rattle.pliron_core.specs.Keys.{key_limit};
ghost use Rattle.pliron_core.specs.Uses.{targets_of};
ghost use Rattle.pliron_core.specs.declared.context.Def.TheVariants.{Argument};
ghost use Rattle.pliron_core.specs.Arguments.{Makers, argument_row_of};
ghost use Rattle.pliron_core.specs.Making.{made_by, definitions_of};
ghost use Rattle.pliron_core.specs.Writes.{argument_definitions_from, result_definitions, argument_definitions};

use crate::context::Def;
use crate::inline_list::InlineList;
use crate::keys::{BasicBlock, Operation, Ptr, Value, next_key};
use crate::uses::{Use, Uses};
use std::alloc::{AllocError, Global};
use std::marker::Model;

/// The arguments of each block in order, and what defines each value.
///
/// A block is a user, and its arguments are its targets: the index of a value is read from its use. What is
/// written of a value says what defines it where it is a result, and what defined it where it is an argument that
/// was removed. Here block 0 has the values 1 and 3, value 0 is a result, and value 2 was removed:
///
/// ```text
/// lists      block 0 -> 1, 3     value 1: used by block 0 at 0     value 3: used by block 0 at 1
///                                value 0: no use                   value 2: no use
/// written[0] = result, which holds      written[2] = argument 1 of block 0, as it was when it was removed
/// written[1], written[3] = no results; their indices are read from their uses
/// ```
#[derive(Drop)]
pub struct Arguments {
    lists: Uses,
    written: Vec<StoredDefinition>,
}

impl Model for Arguments {
    ghost use Rattle.pliron_core.specs.Arguments.{Makers};

    ghost Value = { Makers };

    ghost use Rattle.pliron_core.specs.Arguments.{AreMade, definitions_now};

    ghost view = { λ a. record { rows = a.lists.targets; definitions = definitions_now a.written.items a.lists.uses } };

    ghost invariant = { λ a. AreMade a.lists.targets a.written.items a.lists.uses };
}

impl Arguments {
    /// No blocks and no values. Takes no memory. Cost: constant.
    pub fn new(alloc: Global) -> Self
        ensures { result ≡ record { rows = []; definitions = [] } }
    {
        Arguments {
            lists: Uses::new(alloc),
            written: Vec::new(alloc),
        }
    }

    /// How many blocks there are. Cost: constant.
    pub fn num_blocks(&self) -> usize
        ensures { result ≡ length self.now.rows }
    {
        self.lists.num_users()
    }

    /// How many values there are. Cost: constant.
    pub fn num_values(&self) -> usize
        ensures { result ≡ length self.now.definitions }
    {
        self.written.len()
    }

    /// How many arguments a block has. Asks that there is such a block. Cost: constant.
    pub fn len(&self, block: Ptr<BasicBlock>) -> usize
        requires { block < length self.now.rows }
        ensures { result ≡ length (argument_row_of self.now block) }
    {
        self.lists.num_targets(block.index())
    }

    /// The argument of a block at an index. Asks that there are such a block and such an argument. Cost:
    /// constant, and a logarithm where they are counted.
    pub fn get(&self, block: Ptr<BasicBlock>, i: usize) -> Value
        requires block { block < length self.now.rows }
        requires index { i < length (argument_row_of self.now block) }
        ensures { slice_get (argument_row_of self.now block) i ≡ Some result }
    {
        Value::new(self.lists.target(block.index(), i))
    }

    /// Whether the value is the argument of the block at this index. Cost: constant, and a logarithm where they
    /// are counted.
    pub fn is_at(&self, block: Ptr<BasicBlock>, i: usize, value: Value) -> bool
        ensures { IsTrue result ↔ (slice_get (argument_row_of self.now block) i ≡ Some value) }
    {
        if (block.index() as usize) < self.num_blocks() && i < self.len(block) {
            self.get(block, i) == value
        } else {
            false
        }
    }

    /// What defines a value, or defined it, where it is a removed argument. Cost: constant, and a logarithm where it
    /// is an argument and those of its block are counted.
    #[inline(always)]
    pub fn definition(&self, value: Value) -> Option<Def>
        ensures { result ≡ slice_get self.now.definitions value }
    {
        if value.index() as usize >= self.written.len() {
            return None;
        }
        let made = &self.written[value.index() as usize];
        let written = made.definition();
        if let Def::Result(_, _) = written {
            self.lists.agree();
            return Some(written);
        }
        if self.lists.num_uses(value.index()) == 0 {
            return Some(written);
        }
        let Use { user, place } = self.lists.get_use(value.index(), 0);
        Some(Def::Argument(Ptr::new(user), place as usize))
    }

    /// Makes room for so many more blocks and so many more values.
    ///
    /// Errors: allocation failure. Blocks and values stay as they were. Cost: linear in the tables' length,
    /// which grow so that room asked for one by one is constant each, amortised.
    pub fn reserve(&mut self, blocks: usize, values: usize) -> Result<(), AllocError>
        ensures { self.new ≡ self.old }
    {
        self.written.reserve(values)?;
        self.lists.reserve(blocks, values)
    }

    /// So many new values, results of the operation, by ascending handle.
    ///
    /// Errors: allocation failure, which changes nothing. Cost: one step for each, amortised.
    #[inline(always)]
    pub fn add_results(
        &mut self,
        alloc: Global,
        op: Ptr<Operation>,
        count: usize,
    ) -> Result<InlineList<Value>, AllocError>
        ensures keys { IfOk result (λ row. row ≡ range_with_len (length self.old.definitions) count) }
        ensures ok { OnOk result (self.new ≡ record self.old {
          definitions = self.old.definitions ++ result_definitions
              op count;
        }) }
        ensures err { OnErr result (self.new ≡ self.old) }
    {
        self.written.reserve(count)?;
        self.lists.reserve(0, count)?;
        next_key(self.written.len() + count)?;
        let keys = value_keys(alloc, self.written.len(), count)?;
        self.lists.agree();
        self.lists.add_targets(alloc, count);
        self.lists.agree();
        write_definitions(&mut self.written, Maker::Operation(op), count);
        Ok(keys)
    }

    /// A new block, with so many new values as its arguments, by ascending handle.
    ///
    /// Errors: allocation failure, which changes nothing. Cost: one step for each, amortised.
    pub fn add_block(&mut self, alloc: Global, count: usize) -> Result<(), AllocError>
        ensures rows { OnOk result (self.new.rows ≡ self.old.rows ++ range_with_len (length self.old.definitions) count
            ∷ []) }
        ensures definitions { OnOk result (self.new.definitions ≡ self.old.definitions ++ argument_definitions
            (length self.old.rows) count) }
        ensures err { OnErr result (self.new ≡ self.old) }
    {
        self.written.reserve(count)?;
        next_key(self.written.len() + count)?;
        let block = Ptr::new(next_key(self.lists.num_users())?);
        self.lists.agree();
        self.lists.add_user_with(alloc, count)?;
        self.lists.agree();
        write_definitions(&mut self.written, Maker::Block(block), count);
        Ok(())
    }

    /// The block gets one more argument, a new value, behind the others.
    ///
    /// Asks that there is such a block. Errors: allocation failure, which changes nothing. Cost: constant,
    /// amortised. If the arguments are counted, they are settled first.
    pub fn push(&mut self, alloc: Global, block: Ptr<BasicBlock>) -> Result<Value, AllocError>
        requires { block < length self.old.rows }
        ensures value { IfOk result (λ value. value ≡ length self.old.definitions) }
        ensures rows { OnOk result (self.new.rows ≡ slice_set self.old.rows block (argument_row_of self.old block
            ++ length self.old.definitions ∷ [])) }
        ensures definitions { OnOk result (self.new.definitions ≡ self.old.definitions ++ Argument block (length
            (argument_row_of self.old block)) ∷ []) }
        ensures err { OnErr result (self.new ≡ self.old) }
    {
        self.written.reserve(1)?;
        self.lists.agree();
        let value = self.lists.push_new(alloc, block.index())?;
        self.lists.agree();
        self.written.push_reserved(StoredDefinition {
            maker: Maker::Block(block),
            index: 0,
        });
        Ok(Value::new(value))
    }

    /// The arguments of a block are counted from now on, if there are many, so that ones far from one another
    /// are removed quickly.
    ///
    /// Asks that there is such a block. Errors: allocation failure. Nothing that contracts see changes.
    /// Cost: the number of its arguments.
    pub fn index(&mut self, alloc: Global, block: Ptr<BasicBlock>) -> Result<(), AllocError>
        requires { block < length self.old.rows }
        ensures { self.new ≡ self.old }
    {
        self.lists.index(alloc, block.index())
    }

    /// The arguments of a block are not counted from now on: reads are constant again.
    ///
    /// Asks that there is such a block. Takes no memory. Nothing that contracts see changes. Cost: the number
    /// of its arguments when they were counted, and constant where they are not.
    pub fn settle(&mut self, block: Ptr<BasicBlock>)
        requires { block < length self.old.rows }
        ensures { self.new ≡ self.old }
    {
        self.lists.settle(block.index());
    }

    /// The argument of a block at an index is removed. Each later one has the index before.
    ///
    /// Asks that there are such a block and such an argument. Takes no memory. Cost: the number of arguments
    /// between it and the place where the block lost one last, and constant for the first; amortised, a
    /// constant and at most twice the number of arguments after it. A logarithm where they are counted.
    pub fn remove(&mut self, block: Ptr<BasicBlock>, i: usize)
        requires block { block < length self.old.rows }
        requires index { i < length (argument_row_of self.old block) }
        ensures rows { self.new.rows ≡ slice_set self.old.rows block (remove (argument_row_of self.old block) i) }
        ensures definitions { self.new.definitions ≡ argument_definitions_from self.old.definitions block i
            (drop (i + 1) (argument_row_of self.old block)) }
    {
        self.lists.agree();
        let index = self.lists.place(block.index(), i);
        let value = self.lists.remove(block.index(), i);
        self.written[value as usize] = StoredDefinition {
            maker: Maker::Block(block),
            index,
        };
        self.lists.agree();
    }

    /// All arguments of a block are removed. Asks that there is such a block. Takes no memory. Cost: the number
    /// of its arguments. If they are counted, they are settled first.
    pub fn clear(&mut self, block: Ptr<BasicBlock>)
        requires { block < length self.old.rows }
        ensures { self.new ≡ record self.old { rows = slice_set self.old.rows block [] } }
    {
        self.lists.agree();
        write_arguments(&mut self.written, &self.lists, block);
        self.lists.clear(block.index());
        self.lists.agree();
    }
}

// What defines new values.
#[derive(Clone, Copy, Drop)]
enum Maker {
    Operation(Ptr<Operation>),
    Block(Ptr<BasicBlock>),
}

// What is written of a value, in 12 bytes: a definition whose index has 32 bits.
#[derive(Drop)]
struct StoredDefinition {
    maker: Maker,
    index: u32,
}

impl Model for StoredDefinition {
    ghost use Rattle.pliron_core.specs.declared.context.Def.{Def};

    ghost Value = { Def };

    ghost use Rattle.pliron_core.specs.Making.{made_by};

    ghost view = { λ m. made_by m.maker m.index };
}

impl StoredDefinition {
    #[inline(always)]
    fn definition(&self) -> Def
        ensures { result ≡ self.now }
    {
        match self.maker {
            Maker::Operation(op) => Def::Result(op, self.index as usize),
            Maker::Block(block) => Def::Argument(block, self.index as usize),
        }
    }
}

impl Maker {
    #[inline(always)]
    fn definition(&self, i: u32) -> StoredDefinition
        ensures { result ≡ made_by self.now i }
    {
        StoredDefinition {
            maker: *self,
            index: i,
        }
    }
}

// So many values, by ascending handle.
#[tactic(auto, using(crate::proofs::GrownLemmas::range_more))]
#[inline(always)]
fn value_keys(alloc: Global, first: usize, count: usize) -> Result<InlineList<Value>, AllocError>
    requires { first + count ≤ key_limit }
    ensures { IfOk result (λ row. row ≡ range_with_len first count) }
{
    let mut row = InlineList::new(alloc);
    for i in 0..count {
        row.push(Value::new((first + i) as u32))?;
    }
    Ok(row)
}

// The definitions of so many new values.
#[inline(always)]
fn write_definitions(written: &mut Vec<StoredDefinition>, maker: Maker, count: usize)
    requires room { vec_len written.old + count ≤ vec_capacity written.old }
    requires fits { count ≤ key_limit }
    ensures { written.new.items ≡ written.old.items ++ definitions_of maker count }
{
    for i in 0..count {
        written.push_reserved(maker.definition(i as u32));
    }
}

// The definitions of the block's arguments.
fn write_arguments(written: &mut Vec<StoredDefinition>, lists: &Uses, block: Ptr<BasicBlock>)
    requires block { block < length lists.now.targets }
    requires values { (k v : ℕ) → slice_get (targets_of lists.now block) k ≡ Some v → v < length written.old.items }
    ensures { written.new.items ≡ argument_definitions_from written.old.items block 0 (targets_of lists.now block) }
{
    for i in 0..lists.num_targets(block.index()) {
        let value = lists.target(block.index(), i);
        let index = lists.place(block.index(), i);
        written[value as usize] = StoredDefinition {
            maker: Maker::Block(block),
            index,
        };
    }
}
