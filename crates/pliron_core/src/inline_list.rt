//! A list that contracts see as one.
//!
//! Operand, result, argument, use and successor lists mostly have one or two items, and each allocation costs
//! 190 instructions with its return. So up to two items are stored in place, and more in an allocation. What
//! was allocated stays so, and a list that grows and shrinks about two items allocates nothing. `smallvec` asks
//! for a blank item for each unused place (`T: MadeWith`), which handles don't have, and takes two words more.
//!
//! A longer list is behind a pointer, so that a row of handles takes 16 bytes, and one of uses 24. A list has fewer
//! than 2^32 items, so that an index into it fits 32 bits.
ghost use Rattle.std.specs.Prelude.{remove, ◌≡◌, ◌+◌, ◌-◌, ◌<◌, ◌≤◌, ◌==◌, [], ◌∷◌, ◌++◌, length, slice_set, take, slice_get, Some, IfOk, OnOk, OnErr, IsSome, vec_len, vec_capacity};
ghost use Rattle.pliron_core.specs.UseSlots.{at, put, cut};

use std::alloc::{AllocError, Global};
use std::marker::Model;
use std::mem;

// Up to two items are stored here, and more in an allocation. What was moved there stays there.
#[derive(Drop)]
enum InlineItems<T> {
    Empty,
    One(T),
    Two(T, T),
    Many(Box<Vec<T>>),
}

/// A list that contracts see as one. Up to two items are stored in the list itself and take no memory.
#[derive(Drop)]
pub struct InlineList<T> {
    alloc: Global,
    items: InlineItems<T>,
}

impl<T> Model for InlineList<T> {
    ghost use Rattle.std.specs.Prelude.{List};
    ghost use Rattle.std.specs.Coded.{coded_list};

    ghost Value = { List T };

    ghost coded = { coded_list T.code };

    ghost use Rattle.pliron_core.specs.SlotRows.{list_of};

    ghost view = { λ r. list_of r.items };

    ghost use Rattle.std.specs.Prelude.{◌≤◌, length};

    ghost invariant = { λ r. length (list_of r.items) ≤ 4294967295 };
}

// An empty list in an allocation, with room for a few items.
fn room_for_many<T>(alloc: Global) -> Result<Box<Vec<T>>, AllocError>
where
    T: Drop,
    ensures items { IfOk result (λ b. b.value.items ≡ []) }
    ensures len { IfOk result (λ b. vec_len b.value ≡ 0) }
    ensures room { IfOk result (λ b. 3 ≤ vec_capacity b.value) }
{
    let items = Vec::with_capacity(alloc, 4)?;
    Ok(Box::new(alloc, items)?)
}

// One more at the end of a list in an allocation, if its length still fits 32 bits.
fn push_within<T>(items: &mut Vec<T>, item: T) -> Result<(), AllocError>
where
    T: Drop,
    requires { length items.old.items ≤ 4294967295 }
    ensures ok { OnOk result (items.new.items ≡ items.old.items ++ item ∷ []) }
    ensures short { length items.new.items ≤ 4294967295 }
    ensures err { OnErr result (items.new.items ≡ items.old.items) }
{
    if items.len() >= u32::MAX as usize {
        return Err(AllocError);
    }
    items.push(item)?;
    Ok(())
}

impl<T> InlineList<T> {
    /// No items. Takes no memory. Cost: constant.
    #[inline(always)]
    pub fn new(alloc: Global) -> Self
        ensures { result ≡ [] }
    {
        InlineList {
            alloc,
            items: InlineItems::Empty,
        }
    }

    // How many items.
    #[inline(always)]
    pub(crate) fn count(&self) -> u32
        ensures { result ≡ length self.now }
    {
        match &self.items {
            InlineItems::Empty => 0,
            InlineItems::One(_) => 1,
            InlineItems::Two(_, _) => 2,
            InlineItems::Many(items) => items.len() as u32,
        }
    }

    // This index of an item.
    #[inline(always)]
    pub(crate) fn place(&self, i: usize) -> u32
        requires { i < length self.now }
        ensures { result ≡ i }
    {
        let _ = &self.items;
        i as u32
    }

    /// How many items. Cost: constant.
    #[inline(always)]
    pub fn len(&self) -> usize
        ensures { result ≡ length self.now }
    {
        match &self.items {
            InlineItems::Empty => 0,
            InlineItems::One(_) => 1,
            InlineItems::Two(_, _) => 2,
            InlineItems::Many(items) => items.len(),
        }
    }

    /// Whether there are no items. Cost: constant.
    #[inline(always)]
    pub fn is_empty(&self) -> bool
        ensures { result ≡ (length self.now == 0) }
    {
        self.len() == 0
    }

    /// The item at the end, if there is one. Cost: constant.
    #[inline(always)]
    pub fn last(&self) -> Option<T>
    where
        T: Copy,
        ensures { result ≡ slice_get self.now (length self.now - 1) }
    {
        match &self.items {
            InlineItems::Empty => None,
            InlineItems::One(first) => Some(*first),
            InlineItems::Two(_, second) => Some(*second),
            InlineItems::Many(items) => items.last().copied(),
        }
    }

    /// One more at the end. Errors: allocation failure, which leaves the list as it was.
    /// Cost: constant, amortised.
    #[inline(always)]
    pub fn push(&mut self, item: T) -> Result<(), AllocError>
    where
        T: Drop,
        ensures ok { OnOk result (self.new ≡ self.old ++ item ∷ []) }
        ensures err { OnErr result (self.new ≡ self.old) }
    {
        match mem::replace(&mut self.items, InlineItems::Empty) {
            InlineItems::Empty => self.items = InlineItems::One(item),
            InlineItems::One(first) => self.items = InlineItems::Two(first, item),
            InlineItems::Two(first, second) => match room_for_many(self.alloc) {
                Ok(mut items) => {
                    items.push_reserved(first);
                    items.push_reserved(second);
                    items.push_reserved(item);
                    self.items = InlineItems::Many(items);
                }
                Err(error) => {
                    self.items = InlineItems::Two(first, second);
                    return Err(error);
                }
            },
            InlineItems::Many(mut items) => {
                let pushed = push_within(&mut items, item);
                self.items = InlineItems::Many(items);
                pushed?;
            }
        }
        Ok(())
    }

    /// Appends all of another list. Errors: allocation failure, which leaves the list as it was.
    /// Cost: the other list's length, amortised.
    #[inline(always)]
    pub fn extend(&mut self, other: &InlineList<T>) -> Result<(), AllocError>
    where
        T: Copy,
        ensures ok { OnOk result (self.new ≡ self.old ++ other.now) }
        ensures err { OnErr result (self.new ≡ self.old) }
    {
        let before = self.len();
        for i in 0..other.len() {
            if let Err(error) = self.push(other.get(i)) {
                self.truncate(before);
                return Err(error);
            }
        }
        Ok(())
    }

    /// The item at the end is removed, if there is one. Cost: constant.
    #[inline(always)]
    pub fn pop(&mut self)
    where
        T: Drop,
        ensures { self.new ≡ take (length self.old - 1) self.old }
    {
        match mem::replace(&mut self.items, InlineItems::Empty) {
            InlineItems::Empty => {}
            InlineItems::One(_) => {}
            InlineItems::Two(first, _) => self.items = InlineItems::One(first),
            InlineItems::Many(mut items) => {
                items.pop();
                self.items = InlineItems::Many(items);
            }
        }
    }

    // Only the first `count` items stay.
    #[inline(always)]
    pub(crate) fn truncate(&mut self, count: usize)
    where
        T: Drop,
        ensures { self.new ≡ take count self.old }
    {
        match mem::replace(&mut self.items, InlineItems::Empty) {
            InlineItems::Empty => {}
            InlineItems::One(first) => {
                if count > 0 {
                    self.items = InlineItems::One(first);
                }
            }
            InlineItems::Two(first, second) => match count {
                0 => {}
                1 => self.items = InlineItems::One(first),
                _ => self.items = InlineItems::Two(first, second),
            },
            InlineItems::Many(mut items) => {
                items.truncate(count);
                self.items = InlineItems::Many(items);
            }
        }
    }

    /// The item at an index. Asks that there is one. Cost: constant.
    #[inline(always)]
    pub fn get(&self, i: usize) -> T
    where
        T: Copy,
        requires { i < length self.now }
        ensures { slice_get self.now i ≡ Some result }
    {
        match &self.items {
            InlineItems::Empty => unreachable!(),
            InlineItems::One(first) => *first,
            InlineItems::Two(first, second) => if i == 0 { *first } else { *second },
            InlineItems::Many(items) => items[i],
        }
    }

    /// Removes the item at an index. The later ones move down by one place. Asks that there is one. Cost: the
    /// number of items after it.
    #[inline(always)]
    pub fn remove(&mut self, i: usize)
    where
        T: Drop,
        requires { i < length self.old }
        ensures { self.new ≡ remove self.old i }
    {
        match mem::replace(&mut self.items, InlineItems::Empty) {
            InlineItems::Empty => unreachable!(),
            InlineItems::One(_) => {}
            InlineItems::Two(first, second) => self.items = InlineItems::One(if i == 0 {
                second
            } else {
                first
            }),
            InlineItems::Many(mut items) => {
                items.remove(i);
                self.items = InlineItems::Many(items);
            }
        }
    }

    /// Writes the item at an index. Asks that there is one. Cost: constant.
    #[inline(always)]
    pub fn set(&mut self, i: usize, item: T)
    where
        T: Copy + Drop,
        requires { i < length self.old }
        ensures { self.new ≡ slice_set self.old i item }
    {
        match &mut self.items {
            InlineItems::Empty => unreachable!(),
            InlineItems::One(first) => *first = item,
            InlineItems::Two(first, second) => if i == 0 {
                *first = item
            } else {
                *second = item
            },
            InlineItems::Many(items) => items[i] = item,
        }
    }
}

// The entry `j` of the list `i`.
#[inline(always)]
pub(crate) fn entry<T>(rows: &Vec<InlineList<T>>, i: usize, j: usize) -> T
where
    T: Copy,
    requires { IsSome (at rows.now.items i j) }
    ensures { at rows.now.items i j ≡ Some result }
{
    rows[i].get(j)
}

// Writes the entry `j` of the list `i`.
#[inline(always)]
pub(crate) fn set_entry<T>(rows: &mut Vec<InlineList<T>>, i: usize, j: usize, item: T)
where
    T: Copy + Drop,
    requires { IsSome (at rows.old.items i j) }
    ensures items { rows.new.items ≡ put rows.old.items i j item }
    ensures len { vec_len rows.new ≡ vec_len rows.old }
    ensures capacity { vec_capacity rows.new ≡ vec_capacity rows.old }
{
    rows[i].set(j, item);
}

// Removes the last entry of the list `i`.
#[inline(always)]
pub(crate) fn pop_entry<T>(rows: &mut Vec<InlineList<T>>, i: usize)
where
    T: Drop,
    requires { i < length rows.old.items }
    ensures items { rows.new.items ≡ cut rows.old.items i }
    ensures len { vec_len rows.new ≡ vec_len rows.old }
    ensures capacity { vec_capacity rows.new ≡ vec_capacity rows.old }
{
    rows[i].pop();
}
