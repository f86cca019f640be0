//! Which slots of an operand list are taken, by sums over halves.

ghost use Rattle.std.specs.Prelude.{◌≡◌, ◌<◌, ◌≤◌, ◌^◌, [], Some, IfOk, length, slice_get, slice_set, take};
ghost use Rattle.std.specs.List.{sum};
ghost use Rattle.pliron_core.specs.UseSlots.{marks};
ghost use Rattle.pliron_core.specs.Counts.{AreMarks, pairs};

use crate::inline_list::{InlineList, entry, set_entry};
use crate::use_slots::UseSlot;
use std::alloc::{AllocError, Global};
use std::marker::Model;

/// Which slots of a list are taken: 1 for each that is, and 0 for each free one.
///
/// Above these marks are their sums, two by two, then the sums of those, and so on up to one. So the number of
/// taken slots before one, and the n-th taken slot, are found in as many steps as there are levels. Here the
/// slots 0, 2 and 3 of five are taken:
///
/// ```text
/// level 3     3
/// level 2     3       0
/// level 1     1   2   0
/// level 0     1 0 1 1 0
/// ```
#[derive(Drop)]
pub struct SlotCounts {
    levels: Vec<InlineList<usize>>,
}

impl Model for SlotCounts {
    ghost use Rattle.std.specs.Prelude.{List, ℕ};

    ghost Value = { List ℕ };

    ghost use Rattle.pliron_core.specs.Counts.{AreSums, level};

    ghost view = { λ c. level c.levels.items 0 };

    ghost invariant = { λ c. AreSums c.levels.items };
}

// The sums of neighbours, two by two. Errors: allocation failure. Cost: the number of entries.
fn sums_of(alloc: Global, below: &InlineList<usize>) -> Result<InlineList<usize>, AllocError>
    requires { sum below.now < 2 ^ 64 }
    ensures { IfOk result (λ s. s ≡ pairs below.now) }
{
    let mut sums = InlineList::new(alloc);
    let half = below.len() / 2;
    for q in 0..half {
        sums.push(below.get(2 * q) + below.get(2 * q + 1))?;
    }
    if 2 * half < below.len() {
        sums.push(below.get(2 * half))?;
    }
    Ok(sums)
}

impl SlotCounts {
    /// The counts of a list with these marks. Asks that each is 1 or 0. Errors: allocation failure. Cost: the
    /// number of marks.
    pub fn of_marks(alloc: Global, row: InlineList<usize>) -> Result<SlotCounts, AllocError>
        requires { AreMarks row }
        ensures { IfOk result (λ c. c ≡ row) }
    {
        let _ = row.len();
        let mut levels = Vec::new(alloc);
        let mut below = row;
        while below.len() > 1 {
            let sums = sums_of(alloc, &below)?;
            levels.push(below)?;
            below = sums;
        }
        levels.push(below)?;
        Ok(SlotCounts { levels })
    }

    /// How many slots are taken. Cost: constant.
    pub fn total(&self) -> usize
        ensures { result ≡ sum self.now }
    {
        let top = &self.levels[self.levels.len() - 1];
        if top.is_empty() { 0 } else { top.get(0) }
    }

    /// How many of the slots before this one are taken. Asks that it is one, or the end. Cost: the logarithm of
    /// the number of slots.
    pub fn rank(&self, place: usize) -> usize
        requires { place ≤ length self.now }
        ensures { result ≡ sum (take place self.now) }
    {
        let mut end = place;
        let mut count = 0;
        for k in 0..self.levels.len() {
            if end % 2 == 1 {
                count += entry(&self.levels, k, end - 1);
            }
            end /= 2;
        }
        count
    }

    /// The taken slot with so many taken ones before it. Asks that more are taken. Cost: the logarithm of the
    /// number of slots.
    pub fn select(&self, i: usize) -> usize
        requires { i < sum self.now }
        ensures taken { slice_get self.now result ≡ Some 1 }
        ensures rank { sum (take result self.now) ≡ i }
    {
        let mut place = 0;
        let mut rest = i;
        for k in (0..self.levels.len() - 1).rev() {
            let _ = self.levels[k].len();
            place *= 2;
            let left = entry(&self.levels, k, place);
            if rest >= left {
                rest -= left;
                place += 1;
            }
        }
        place
    }

    /// A taken slot is free from now on. Asks that it is taken. Takes no memory. Cost: the logarithm of the
    /// number of slots.
    pub fn free(&mut self, place: usize)
        requires { slice_get self.old place ≡ Some 1 }
        ensures { self.new ≡ slice_set self.old place 0 }
    {
        let mut at = place;
        for k in 0..self.levels.len() {
            let count = entry(&self.levels, k, at);
            set_entry(&mut self.levels, k, at, count - 1);
            at /= 2;
        }
    }
}

/// The marks of an operand list. Errors: allocation failure. Cost: the number of slots.
pub fn marks_of(alloc: Global, row: &InlineList<UseSlot>) -> Result<InlineList<usize>, AllocError>
    ensures { IfOk result (λ m. m ≡ marks row.now) }
{
    let mut taken = InlineList::new(alloc);
    for i in 0..row.len() {
        let target = row.get(i).target;
        taken.push(if target == u32::MAX { 0 } else { 1 })?;
    }
    Ok(taken)
}
