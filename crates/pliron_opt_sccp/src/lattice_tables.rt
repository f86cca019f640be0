//! The state of the search, in tables by number: the lattice value of each value, the executable blocks, and
//! the worklists.
//!
//! Everything above speaks of the words of `specs/LatticeTables` alone, so that other tables can be behind the same
//! contracts.
//!
//! All room is taken when the tables are made, so marking, lowering and popping can't fail. A clock advances
//! with each visit: a value keeps the stamp of its last lowering, and an operation with results that of its
//! last visit, by the number of its first result; a user visited since the value was last lowered is not
//! revisited. The clock stops at its greatest number, where nothing counts as visited.
ghost use Rattle.std.specs.Prelude.{◌≡◌, ◌≤◌, ◌+◌, ◌<◌, ◌^◌, ℕ, nat_eq, false, [], Some, IfOk, length, replicate, slice_get, vec_capacity, IsOkUnless};
ghost use Rattle.std.specs.List.{list_any};
ghost use Rattle.indexmap.specs.IndexSet.{index_of};
ghost use Rattle.pliron_opt_sccp.specs.declared.lattice_tables.LatticeCell.TheVariants.{Constant as Known, Undetermined as IsUndetermined};
ghost use Rattle.pliron_core.specs.Lists.{IsDistinct};
ghost use Rattle.pliron_opt_sccp.specs.EmptyTables.{AreEmpty};
ghost use Rattle.pliron_opt_sccp.specs.LatticeCells.{AreOnce, is_lowered_at, is_waiting, mark_at, stamp_at, unknown_count};

use crate::direct_mapped_index::{DirectMappedIndex, HasKey};
use indexmap::IndexSet;
use pliron_core::{AttrObj, BasicBlock, Ptr, Value};
use pliron_laws::OptError;
use std::alloc::Global;

/// What is known of a block.
#[derive(Copy, Clone)]
pub enum BlockState {
    NotExecutable,
    Waiting,
    Visited,
}

/// What is known of a value: a constant is the number of an attribute.
#[derive(Copy, Clone)]
pub enum LatticeCell {
    Undetermined,
    Constant(usize),
    NotAConstant,
}

// The numbers that some handles most likely have, and room for each of them on a worklist, which is empty.
#[derive(Drop)]
struct LikelyNumbers {
    index: DirectMappedIndex,
    worklist: Vec<usize>,
}

// What is known of some values at the start: nothing. There is room for a constant for each.
#[derive(Drop)]
struct EmptyLattice {
    cells: Vec<LatticeCell>,
    on_worklist: Vec<bool>,
    constants: Vec<AttrObj>,
}

// Stamps of some values: none was visited or lowered.
#[derive(Drop)]
struct Stamps {
    visits: Vec<u64>,
    lowered: Vec<u64>,
}

// All tables but the lists of blocks and values themselves. Each part is made by a function of its own, so that few
// exits drop much.
#[derive(Drop)]
struct EmptyTables {
    block_numbers: LikelyNumbers,
    marks: Vec<BlockState>,
    value_numbers: LikelyNumbers,
    lattice: EmptyLattice,
    stamps: Stamps,
}

// Errors: allocation failure. Cost: one step for each handle.
fn number<T: HasKey>(alloc: Global, listed: &[T]) -> Result<LikelyNumbers, OptError>
    ensures empty { IfOk result (λ numbers. numbers.worklist.items ≡ []) }
    ensures room { IfOk result (λ numbers. length listed.now ≤ vec_capacity numbers.worklist) }
    ensures memory { IsOkUnless result OptError.Memory }
{
    let index = DirectMappedIndex::of_handles(alloc, listed)?;
    let worklist = Vec::with_capacity(alloc, listed.len())?;
    Ok(LikelyNumbers { index, worklist })
}

// Errors: allocation failure. Cost: one step for each value.
fn empty_lattice(alloc: Global, count: usize) -> Result<EmptyLattice, OptError>
    ensures cells { IfOk result (λ lattice. lattice.cells.items ≡ replicate count IsUndetermined) }
    ensures none_waits { IfOk result (λ lattice. lattice.on_worklist.items ≡ replicate count false) }
    ensures no_constants { IfOk result (λ lattice. lattice.constants.items ≡ []) }
    ensures room { IfOk result (λ lattice. count ≤ vec_capacity lattice.constants) }
    ensures memory { IsOkUnless result OptError.Memory }
{
    let cells = Vec::from_elem(alloc, LatticeCell::Undetermined, count)?;
    let on_worklist = Vec::from_elem(alloc, false, count)?;
    let constants = Vec::with_capacity(alloc, count)?;
    Ok(EmptyLattice {
        cells,
        on_worklist,
        constants,
    })
}

// Errors: allocation failure. Cost: one step for each value.
fn zero_stamps(alloc: Global, count: usize) -> Result<Stamps, OptError>
    ensures visits { IfOk result (λ stamps. stamps.visits.items ≡ replicate count 0) }
    ensures lowered { IfOk result (λ stamps. stamps.lowered.items ≡ replicate count 0) }
    ensures memory { IsOkUnless result OptError.Memory }
{
    let visits = Vec::from_elem(alloc, 0, count)?;
    let lowered = Vec::from_elem(alloc, 0, count)?;
    Ok(Stamps { visits, lowered })
}

// Errors: allocation failure. Cost: one step for each block and value.
fn empty_tables(
    alloc: Global,
    blocks: &IndexSet<Ptr<BasicBlock>>,
    values: &IndexSet<Value>,
) -> Result<EmptyTables, OptError>
    ensures ok { IfOk result (λ tables. AreEmpty (length blocks.now.keys) (length values.now.keys) tables) }
    ensures blocks { IfOk result (λ made. IsDistinct blocks.now.keys) }
    ensures values { IfOk result (λ made. IsDistinct values.now.keys × (length values.now.keys < 2 ^ 63)) }
    ensures memory { IsOkUnless result OptError.Memory }
{
    let block_numbers = number(alloc, blocks.as_slice())?;
    let marks = Vec::from_elem(alloc, BlockState::NotExecutable, blocks.len())?;
    let value_numbers = number(alloc, values.as_slice())?;
    let lattice = empty_lattice(alloc, values.len())?;
    let stamps = zero_stamps(alloc, values.len())?;
    Ok(EmptyTables {
        block_numbers,
        marks,
        value_numbers,
        lattice,
        stamps,
    })
}

/// The lattice values so far, and the worklists. A value without a number is not a constant.
///
/// ```text
/// blocks, values            each once; its place is its number
/// block_index, value_index  the number that a handle most likely has
/// marks                     of each block   NotExecutable, Waiting, Visited       moves from left to right
/// cells                     of each value   Undetermined, Constant, NotAConstant  is lowered from left to right
/// values_on_worklist        of each value   whether it was lowered since it was popped
/// constants                 by the number in a cell; at most one for each value
/// block_worklist            executable blocks that were not visited yet           the last one is popped first
/// value_worklist            values lowered since they were popped                 the last one is popped first
/// clock                     how many visits were stamped
/// visit_stamps              of each value   the stamp of the last visit of the operation whose first result it is
/// lowered_stamps            of each value   what the clock said when it was last lowered
/// ```
#[derive(Drop)]
pub struct Tables {
    blocks: IndexSet<Ptr<BasicBlock>>,
    values: IndexSet<Value>,
    block_index: DirectMappedIndex,
    value_index: DirectMappedIndex,
    marks: Vec<BlockState>,
    cells: Vec<LatticeCell>,
    values_on_worklist: Vec<bool>,
    constants: Vec<AttrObj>,
    block_worklist: Vec<usize>,
    value_worklist: Vec<usize>,
    clock: u64,
    visit_stamps: Vec<u64>,
    lowered_stamps: Vec<u64>,
    ghost marked: { length marks.items ≡ length blocks.keys },
    ghost has_cells: { length cells.items ≡ length values.keys },
    ghost queued: { length values_on_worklist.items ≡ length values.keys },
    ghost block_numbers: { (n b : ℕ) → slice_get blocks.keys n ≡ Some b → index_of nat_eq blocks b ≡ Some n },
    ghost value_numbers: { (n v : ℕ) → slice_get values.keys n ≡ Some v → index_of nat_eq values v ≡ Some n },
    ghost blocks_wait: { (n : ℕ) → list_any (nat_eq n) block_worklist.items ≡ is_waiting
        (mark_at marks.items (Some n)) },
    ghost values_wait: { (n : ℕ) → list_any (nat_eq n) value_worklist.items ≡ is_lowered_at values_on_worklist.items
        (Some n) },
    ghost blocks_once: { AreOnce block_worklist.items },
    ghost values_once: { AreOnce value_worklist.items },
    ghost blocks_room: { length blocks.keys ≤ vec_capacity block_worklist },
    ghost values_room: { length values.keys ≤ vec_capacity value_worklist },
    ghost values_few: { length values.keys < 2 ^ 63 },
    ghost known: { (n k : ℕ) → slice_get cells.items n ≡ Some (Known k) → k < length constants.items },
    ghost constants_room: { length constants.items + unknown_count cells.items ≤ vec_capacity constants },
    ghost has_visit_stamps: { length visit_stamps.items ≡ length values.keys },
    ghost stamped: { length lowered_stamps.items ≡ length values.keys },
    ghost past: { (n : ℕ) → stamp_at visit_stamps.items (Some n) ≤ clock },
}

impl Tables {
    ghost use Rattle.std.specs.Prelude.{◌≡◌, ℕ, true, IfOk, IfSome, IfNone, None};
    ghost use Rattle.pliron_theory.specs.LatticeValues.{AtMost, LatticeValue, Constant as IsConstant, lattice_constant as known_of};
    ghost use Rattle.pliron_opt_sccp.specs.LatticeCells.{Means};
    ghost use Rattle.pliron_opt_sccp.specs.LatticeTables.{known_constants, lattice_value_in, lowered_stamp, is_numbered, visit_stamp, is_executable, is_block_on_worklist, AreNew, Enters, LowersTo, Lowers, JoinsWorklist, StampsVisit, PopsBlock, PopsValue, IsBlockWorklistEmpty, IsValueWorklistEmpty};

    /// Tables over these blocks and values, with all the room that they ever need.
    ///
    /// Errors: allocation failure. Cost: one step for each block and value.
    pub fn with_room_for(
        alloc: Global,
        blocks: IndexSet<Ptr<BasicBlock>>,
        values: IndexSet<Value>,
    ) -> Result<Tables, OptError>
        ensures ok { IfOk result (λ s. AreNew blocks.keys values.keys s) }
        ensures memory { IsOkUnless result OptError.Memory }
    {
        let EmptyTables {
            block_numbers,
            marks,
            value_numbers,
            lattice,
            stamps,
        } = empty_tables(alloc, &blocks, &values)?;
        Ok(Tables {
            blocks,
            values,
            block_index: block_numbers.index,
            value_index: value_numbers.index,
            marks,
            cells: lattice.cells,
            values_on_worklist: lattice.on_worklist,
            constants: lattice.constants,
            block_worklist: block_numbers.worklist,
            value_worklist: value_numbers.worklist,
            clock: 0,
            visit_stamps: stamps.visits,
            lowered_stamps: stamps.lowered,
        })
    }

    // The number of the block, if it has one. Cost: one step where it is guessed, otherwise one look-up.
    #[inline(always)]
    fn block_number(&self, block: Ptr<BasicBlock>) -> Option<usize>
        ensures index { result ≡ index_of nat_eq self.now.blocks block }
        ensures within { IfSome result (λ n. n < length self.now.blocks.keys) }
    {
        let guess = self.block_index.get(block.key());
        if let Some(listed) = self.blocks.get_index(guess) {
            if *listed == block {
                return Some(guess);
            }
        }
        self.blocks.get_index_of(&block)
    }

    // The number of the value, if it has one. Cost: one step where it is guessed, otherwise one look-up.
    #[inline(always)]
    fn value_number(&self, value: Value) -> Option<usize>
        ensures index { result ≡ index_of nat_eq self.now.values value }
        ensures within { IfSome result (λ n. n < length self.now.values.keys) }
    {
        let guess = self.value_index.get(value.key());
        if let Some(listed) = self.values.get_index(guess) {
            if *listed == value {
                return Some(guess);
            }
        }
        self.values.get_index_of(&value)
    }

    /// Whether the block is executable. Cost: one look-up.
    pub fn is_executable(&self, block: Ptr<BasicBlock>) -> bool
        ensures { result ≡ is_executable self.now block }
    {
        match self.block_number(block) {
            Some(n) => match self.marks[n] {
                BlockState::NotExecutable => false,
                _ => true,
            },
            None => false,
        }
    }

    /// Whether the block is on the worklist. Cost: one look-up.
    pub fn is_on_worklist(&self, block: Ptr<BasicBlock>) -> bool
        ensures { result ≡ is_block_on_worklist self.now block }
    {
        match self.block_number(block) {
            Some(n) => match self.marks[n] {
                BlockState::Waiting => true,
                _ => false,
            },
            None => false,
        }
    }

    /// What is known of the value, a constant by its number. Cost: one look-up.
    #[inline(always)]
    pub fn cell(&self, value: Value) -> LatticeCell
        ensures { Means (known_constants self.now) result (lattice_value_in self.now value) }
    {
        match self.value_number(value) {
            Some(n) => self.cells[n],
            None => LatticeCell::NotAConstant,
        }
    }

    /// The constant that the value is, if it is one. Cost: one look-up.
    #[inline(always)]
    pub fn constant(&self, value: Value) -> Option<&AttrObj>
        ensures some { IfSome result (λ c. IsConstant c.now ≡ lattice_value_in self.now value) }
        ensures none { IfNone result (known_of (lattice_value_in self.now value) ≡ None) }
    {
        let n = self.value_number(value)?;
        match self.cells[n] {
            LatticeCell::Constant(k) => Some(&self.constants[k]),
            _ => None,
        }
    }

    /// The stamp of the last visit of the operation with this first result, 0 where there was none. Cost: one
    /// look-up.
    #[inline(always)]
    pub fn visit_stamp(&self, first: Value) -> u64
        ensures { result ≡ visit_stamp self.now first }
    {
        match self.value_number(first) {
            Some(n) => self.visit_stamps[n],
            None => 0,
        }
    }

    /// The stamp of the value's last lowering: visits with greater stamps came later. Cost: one look-up.
    #[inline(always)]
    pub fn lowered_stamp(&self, value: Value) -> u64
        ensures { result ≡ lowered_stamp self.now value }
    {
        match self.value_number(value) {
            Some(n) => self.lowered_stamps[n],
            None => 0,
        }
    }

    /// The operation with this first result is visited now: the visit gets the greatest stamp so far, and so
    /// does what is lowered before the next one. Takes no memory. Cost: one look-up.
    #[inline(always)]
    pub fn stamp_visit(&mut self, first: Value)
        ensures { StampsVisit first self.old self.new }
    {
        self.clock = self.clock.saturating_add(1);
        if let Some(n) = self.value_number(first) {
            self.visit_stamps[n] = self.clock;
        }
    }

    /// How many constants were answered. Cost: constant.
    pub fn constant_count(&self) -> usize {
        self.constants.len()
    }

    /// Marks the block executable, and puts it on the worklist if it wasn't. Takes no memory.
    ///
    /// Asks that the block has a number. Cost: one look-up.
    pub fn mark_executable(&mut self, block: Ptr<BasicBlock>)
        requires { is_numbered self.old block ≡ true }
        ensures { Enters block self.old self.new }
    {
        let Some(n) = self.block_number(block) else {
            unreachable!()
        };
        match self.marks[n] {
            BlockState::NotExecutable => {
                self.block_worklist.push_reserved(n);
                self.marks[n] = BlockState::Waiting;
            }
            _ => {}
        }
    }

    // Puts the value with this number on the worklist, and stamps its lowering. Takes no memory.
    #[inline(always)]
    fn push_value(&mut self, n: usize)
        requires { n < length self.old.values.keys }
        ensures { JoinsWorklist n self.old self.new }
    {
        self.lowered_stamps[n] = self.clock;
        if !self.values_on_worklist[n] {
            self.value_worklist.push_reserved(n);
            self.values_on_worklist[n] = true;
        }
    }

    // What the lattice value is lowered to, where that is another one than before.
    #[inline(always)]
    fn lowered_value(&self, old: LatticeCell, to: LatticeCell) -> Option<LatticeCell>
        requires old { (f : LatticeValue) × Means (known_constants self.now) old f }
        requires to { (g : LatticeValue) × Means (known_constants self.now) to g }
        ensures lowered { IfSome result (λ new. (f g : LatticeValue) → Means (known_constants self.now) old f
            → Means (known_constants self.now) to g → (m : LatticeValue) × Means (known_constants self.now) new m
            × LowersTo f g m) }
        ensures stays { IfNone result ((f g : LatticeValue) → Means (known_constants self.now) old f → Means
            (known_constants self.now) to g → AtMost f g) }
    {
        match to {
            LatticeCell::Undetermined => None,
            LatticeCell::Constant(k) => match old {
                LatticeCell::Undetermined => Some(to),
                LatticeCell::Constant(j) => {
                    if self.constants[j].is_same(&self.constants[k]) {
                        None
                    } else {
                        Some(LatticeCell::NotAConstant)
                    }
                }
                LatticeCell::NotAConstant => None,
            },
            LatticeCell::NotAConstant => match old {
                LatticeCell::NotAConstant => None,
                _ => Some(LatticeCell::NotAConstant),
            },
        }
    }

    /// Lowers the lattice value of the value to its meet with what the cell means, and puts the value on the
    /// worklist if that is another one than before. Takes no memory.
    ///
    /// Asks that a constant in the cell has its number here. Cost: one look-up, and comparing two attributes.
    #[inline(always)]
    pub fn lower(&mut self, value: Value, to: LatticeCell)
        requires { (g : LatticeValue) × Means (known_constants self.old) to g }
        ensures { (g : LatticeValue) → Means (known_constants self.old) to g → Lowers value g self.old self.new }
    {
        let Some(n) = self.value_number(value) else {
            return;
        };
        let Some(new) = self.lowered_value(self.cells[n], to) else {
            return;
        };
        self.cells[n] = new;
        self.push_value(n);
    }

    /// Lowers the lattice value of the value to its meet with this constant, and puts the value on the worklist
    /// if that is another one than before. Takes no memory.
    ///
    /// Cost: one look-up, and comparing two attributes.
    #[inline(always)]
    pub fn answer(&mut self, value: Value, attr: AttrObj)
        ensures { Lowers value (IsConstant attr) self.old self.new }
    {
        let Some(n) = self.value_number(value) else {
            return;
        };
        match self.cells[n] {
            LatticeCell::Undetermined => {
                self.cells[n] = LatticeCell::Constant(self.constants.len());
                self.constants.push_reserved(attr);
                self.push_value(n);
            }
            LatticeCell::Constant(k) => {
                if !self.constants[k].is_same(&attr) {
                    self.cells[n] = LatticeCell::NotAConstant;
                    self.push_value(n);
                }
            }
            LatticeCell::NotAConstant => {}
        }
    }

    /// Pops a block off the worklist; `None` where it is empty. Takes no memory.
    ///
    /// Cost: constant.
    pub fn pop_block(&mut self) -> Option<Ptr<BasicBlock>>
        ensures taken { IfSome result (λ block. PopsBlock block self.old self.new) }
        ensures none { IfNone result (IsBlockWorklistEmpty self.old self.new) }
    {
        let n = self.block_worklist.pop()?;
        self.marks[n] = BlockState::Visited;
        Some(self.blocks.as_slice()[n])
    }

    /// Pops a value off the worklist; `None` where it is empty. Takes no memory.
    ///
    /// Cost: constant.
    pub fn pop_value(&mut self) -> Option<Value>
        ensures taken { IfSome result (λ value. PopsValue value self.old self.new) }
        ensures none { IfNone result (IsValueWorklistEmpty self.old self.new) }
    {
        let n = self.value_worklist.pop()?;
        self.values_on_worklist[n] = false;
        Some(self.values.as_slice()[n])
    }
}
