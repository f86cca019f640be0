//! All targets of a user, removed together.

ghost use Rattle.std.specs.Prelude.{◌≡◌, ℕ, [], ◌<◌, length, slice_index_or, slice_set, Some, vec_capacity, vec_len};
ghost use Rattle.pliron_core.specs.declared.use_slots.UseSlot.{UseSlot as PlaceOf};
ghost use Rattle.pliron_core.specs.UseSlots.{at, marks_in, no_target, targets_in, IsLinked};
ghost use Rattle.pliron_core.specs.Holes.{AreLinked, KeepRooms};

use crate::inline_list::{InlineList, entry};
use crate::use_slots::{Gap, Holes, UseSlot, close_gap, vacate};
use crate::uses::Use;

// All slots of the user are free from now on. Takes no memory. Cost: the number of its slots.
fn vacate_all(places: &mut Vec<InlineList<UseSlot>>, uses: &mut Vec<InlineList<Use>>, user: u32)
    requires linked { IsLinked places.old.items uses.old.items }
    requires user { user < length places.old.items }
    ensures linked { IsLinked places.new.items uses.new.items }
    ensures targets { targets_in places.new.items ≡ slice_set (targets_in places.old.items) user [] }
    ensures marks { marks_in places.new.items ≡ slice_set (marks_in places.old.items) user
        (slice_index_or (marks_in places.new.items) user []) }
    ensures free { (n : ℕ) (p : PlaceOf) → at places.new.items user n ≡ Some p → p.target ≡ no_target }
    ensures count { length uses.new.items ≡ length uses.old.items }
    ensures rooms { (vec_len places.new ≡ vec_len places.old) × (vec_capacity places.new ≡ vec_capacity places.old)
        × (vec_len uses.new ≡ vec_len uses.old) × (vec_capacity uses.new ≡ vec_capacity uses.old) }
{
    for place in 0..places[user as usize].len() {
        if entry(places, user as usize, place).target == u32::MAX {
            continue;
        }
        vacate(places, uses, user, place);
    }
}

// The user has no targets and no free slots from now on, and they are not counted. Takes no memory. Cost: the
// number of its slots.
#[inline(always)]
pub(super) fn empty_places(
    places: &mut Vec<InlineList<UseSlot>>,
    holes: &mut Vec<Holes>,
    uses: &mut Vec<InlineList<Use>>,
    user: u32,
)
    requires linked { AreLinked places.old.items holes.old.items uses.old.items }
    requires user { user < length holes.old.items }
    ensures linked { AreLinked places.new.items holes.new.items uses.new.items }
    ensures targets { targets_in places.new.items ≡ slice_set (targets_in places.old.items) user [] }
    ensures count { length uses.new.items ≡ length uses.old.items }
    ensures rooms { KeepRooms places.old places.new holes.old holes.new uses.old uses.new }
{
    vacate_all(places, uses, user);
    let len = places[user as usize].count();
    holes[user as usize] = Holes::OneGap(Gap { start: 0, len });
    close_gap(places, holes, user);
}
