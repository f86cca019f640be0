//! Users whose slots are counted: long lists that lose targets far from one another.
//!
//! A gap would cross a long list at each of many removals far apart. So such a list gets an index when asked
//! (`index_operands`, `index_arguments`): for each slot whether it is taken, and sums over pairs, pairs of
//! pairs and so on. The slot of an index, the index of a slot, and a removal are then logarithmic. A removal
//! takes no memory, so the index is asked for before; `settle_operands` and `settle_arguments` close the gaps
//! again, and so does one more operand.

ghost use Rattle.std.specs.Prelude.{◌≡◌, ◌≢◌, ℕ, true, false, [], ◌<◌, length, sum, take, slice_set, slice_index_or, slice_get, Some, remove, vec_len, vec_capacity};
ghost use Rattle.pliron_core.specs.UseSlots.{targets_held, targets_in, uses_in};
ghost use Rattle.pliron_core.specs.Holes.{hole_of, counts_of, is_counted, HaveHoles, AreLinked, KeepRooms};

use crate::compaction::move_down;
use crate::inline_list::InlineList;
use crate::slot_counts::{SlotCounts, marks_of};
use crate::use_slots::{Gap, Holes, UseSlot, are_counted, close_gap, vacate};
use crate::uses::Use;
use std::alloc::{AllocError, Global};

// A list of no more slots is not counted: its gap is as quick.
const FEW_PLACES: usize = 64;

// The slots of a user are counted from now on, if there are many.
pub(super) fn count_places(
    alloc: Global,
    places: &Vec<InlineList<UseSlot>>,
    holes: &mut Vec<Holes>,
    user: u32,
) -> Result<(), AllocError>
    requires holes { HaveHoles places.now.items holes.old.items }
    requires user { user < length holes.old.items }
    ensures holes { HaveHoles places.now.items holes.new.items }
    ensures rooms { (vec_len holes.new ≡ vec_len holes.old) × (vec_capacity holes.new ≡ vec_capacity holes.old) }
{
    if places[user as usize].len() <= FEW_PLACES || are_counted(holes, user) {
        return Ok(());
    }
    let counts = SlotCounts::of_marks(alloc, marks_of(alloc, &places[user as usize])?)?;
    holes[user as usize] = Holes::Counted(Box::new(alloc, counts)?);
    Ok(())
}

// The slot of the target at an index among those of a user whose slots are counted: the counts have its slot as
// free from now on.
fn free_counted(holes: &mut Vec<Holes>, user: u32, i: usize) -> usize
    requires user { user < length holes.old.items }
    requires counted { is_counted holes.old.items user ≡ true }
    requires index { i < sum (counts_of holes.old.items user) }
    ensures taken { slice_get (counts_of holes.old.items user) result ≡ Some 1 }
    ensures rank { sum (take result (counts_of holes.old.items user)) ≡ i }
    ensures counted { is_counted holes.new.items user ≡ true }
    ensures counts { counts_of holes.new.items user ≡ slice_set (counts_of holes.old.items user) result 0 }
    ensures others { (u : ℕ) → u ≢ user → hole_of holes.new.items u ≡ hole_of holes.old.items u }
    ensures rooms { (vec_len holes.new ≡ vec_len holes.old) × (vec_capacity holes.new ≡ vec_capacity holes.old) }
{
    match &mut holes[user as usize] {
        Holes::OneGap(_) => unreachable!(),
        Holes::Counted(counts) => {
            let place = counts.select(i);
            counts.free(place);
            place
        }
    }
}

// The target at an index of a user whose slots are counted is removed and answered.
pub(super) fn take_counted(
    places: &mut Vec<InlineList<UseSlot>>,
    holes: &mut Vec<Holes>,
    uses: &mut Vec<InlineList<Use>>,
    user: u32,
    i: usize,
) -> u32
    requires linked { AreLinked places.old.items holes.old.items uses.old.items }
    requires user { user < length holes.old.items }
    requires counted { is_counted holes.old.items user ≡ true }
    requires index { i < length (targets_held (slice_index_or places.old.items user [])) }
    ensures linked { AreLinked places.new.items holes.new.items uses.new.items }
    ensures target { slice_get (targets_held (slice_index_or places.old.items user [])) i ≡ Some result }
    ensures targets { targets_in places.new.items ≡ slice_set (targets_in places.old.items) user (remove (slice_index_or
        (targets_in places.old.items) user []) i) }
    ensures count { length uses.new.items ≡ length uses.old.items }
    ensures rooms { KeepRooms places.old places.new holes.old holes.new uses.old uses.new }
{
    let place = free_counted(holes, user, i);
    vacate(places, uses, user, place)
}

// The slots of a user are not counted from now on, and none of them is free if they were counted. Takes no
// memory.
#[inline(always)]
pub(super) fn settle_places(
    places: &mut Vec<InlineList<UseSlot>>,
    holes: &mut Vec<Holes>,
    uses: &mut Vec<InlineList<Use>>,
    user: u32,
)
    requires linked { AreLinked places.old.items holes.old.items uses.old.items }
    requires user { user < length holes.old.items }
    ensures linked { AreLinked places.new.items holes.new.items uses.new.items }
    ensures gapped { is_counted holes.new.items user ≡ false }
    ensures targets { targets_in places.new.items ≡ targets_in places.old.items }
    ensures uses { uses_in places.new.items uses.new.items ≡ uses_in places.old.items uses.old.items }
    ensures rooms { KeepRooms places.old places.new holes.old holes.new uses.old uses.new }
{
    if are_counted(holes, user) {
        settle_counted(places, holes, uses, user);
    }
}

// The taken slots of a user come together at the front, and the others are dropped: it has no gap.
fn settle_counted(
    places: &mut Vec<InlineList<UseSlot>>,
    holes: &mut Vec<Holes>,
    uses: &mut Vec<InlineList<Use>>,
    user: u32,
)
    requires linked { AreLinked places.old.items holes.old.items uses.old.items }
    requires user { user < length holes.old.items }
    ensures linked { AreLinked places.new.items holes.new.items uses.new.items }
    ensures gapped { is_counted holes.new.items user ≡ false }
    ensures targets { targets_in places.new.items ≡ targets_in places.old.items }
    ensures uses { uses_in places.new.items uses.new.items ≡ uses_in places.old.items uses.old.items }
    ensures rooms { KeepRooms places.old places.new holes.old holes.new uses.old uses.new }
{
    let start = move_down(places, uses, user);
    let len = places[user as usize].count() as usize - start;
    holes[user as usize] = Holes::OneGap(Gap {
        start: start as u32,
        len: len as u32,
    });
    close_gap(places, holes, user);
}
