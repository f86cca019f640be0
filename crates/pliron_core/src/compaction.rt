//! The taken slots of an operand list, moved together.

ghost use Rattle.std.specs.Prelude.{◌≡◌, ◌≢◌, ℕ, ◌<◌, ◌≤◌, [], length, slice_index_or, Some, vec_capacity, vec_len};
ghost use Rattle.pliron_core.specs.declared.use_slots.UseSlot.{UseSlot as PlaceOf};
ghost use Rattle.pliron_core.specs.UseSlots.{at, targets_held, no_target, targets_in, uses_in, IsLinked};

use crate::inline_list::{InlineList, entry};
use crate::use_slots::{UseSlot, relocate};
use crate::uses::Use;

// Each taken slot of the user moves down over the free ones before it. Answers how many are taken: they come
// first.
// Asks that there is such a user. Takes no memory. Cost: the number of its places.
pub(super) fn move_down(
    places: &mut Vec<InlineList<UseSlot>>,
    uses: &mut Vec<InlineList<Use>>,
    user: u32,
) -> usize
    requires linked { IsLinked places.old.items uses.old.items }
    requires user { user < length places.old.items }
    ensures linked { IsLinked places.new.items uses.new.items }
    ensures targets { targets_in places.new.items ≡ targets_in places.old.items }
    ensures uses { uses_in places.new.items uses.new.items ≡ uses_in places.old.items uses.old.items }
    ensures first { (n : ℕ) (p : PlaceOf) → at places.new.items user n ≡ Some p → n < result → p.target ≢ no_target }
    ensures free { (n : ℕ) (p : PlaceOf) → at places.new.items user n ≡ Some p → result ≤ n → p.target ≡ no_target }
    ensures taken { result ≡ length (targets_held (slice_index_or places.old.items user [])) }
    ensures within { result ≤ length (slice_index_or places.old.items user []) }
    ensures len { length (slice_index_or places.new.items user []) ≡ length (slice_index_or places.old.items user []) }
    ensures others { (u : ℕ) → u ≢ user → slice_index_or places.new.items u [] ≡ slice_index_or places.old.items u [] }
    ensures count { length uses.new.items ≡ length uses.old.items }
    ensures rooms { (vec_len places.new ≡ vec_len places.old) × (vec_capacity places.new ≡ vec_capacity places.old)
        × (vec_len uses.new ≡ vec_len uses.old) × (vec_capacity uses.new ≡ vec_capacity uses.old) }
{
    let mut taken = 0;
    for from in 0..places[user as usize].len() {
        if entry(places, user as usize, from).target == u32::MAX {
            continue;
        }
        if taken < from {
            relocate(places, uses, user, from, taken);
        }
        taken += 1;
    }
    taken
}
