//! The slots of each user, with a gap where targets were removed, and how they move.
//!
//! What a user loses leaves one gap, which moves to where the next item is removed: removals side by side cost
//! one step each. Lists of up to 64 slots always keep their gap; where removals in a longer one are far apart,
//! counts find the free slots (`counted_slots`).

ghost use Rattle.std.specs.Prelude.{◌≡◌, ◌≢◌, ℕ, false, ◌+◌, ◌-◌, ◌^◌, ◌<◌, ◌≤◌, List, [], ◌∷◌, ◌++◌, length, slice_set, vec_capacity, vec_len, slice_get, slice_index_or, Some, take, IfOk, OnOk, OnErr, remove};
ghost use Rattle.std.specs.List.{insert};
ghost use Rattle.pliron_core.specs.Keys.{key_limit};
ghost use Rattle.pliron_core.specs.declared.uses.Use.{Use};
ghost use Rattle.std.specs.Option.{option_map};
ghost use Rattle.pliron_core.specs.declared.use_slots.UseSlot.{UseSlot as PlaceOf};
ghost use Rattle.pliron_core.specs.UseSlots.{at, put, targets_held, rank, marks, marks_in, retarget_slot, targets_in, uses_in, no_target, free_place, HasGap, IsLinked, places_from};
ghost use Rattle.pliron_core.specs.Holes.{gap_of, is_counted, Tracks, HaveHoles, AreLinked, KeepRooms};

use crate::inline_list::{InlineList, entry, pop_entry, set_entry};
use crate::slot_counts::SlotCounts;
use crate::uses::Use;
use std::alloc::{AllocError, Global};

/// What a slot of a user names, and the index of its use in the target's use list.
#[derive(Clone, Copy)]
pub struct UseSlot {
    pub target: u32,
    pub at: u32,
}

/// The free slots of a user: the first one, and how many there are.
///
/// A removal leaves a free slot, and the gap moves to it; so removals side by side move no slots, in either
/// direction.
#[derive(Clone, Copy)]
pub struct Gap {
    pub start: u32,
    pub len: u32,
}

/// Where the free slots of a user are.
///
/// They lie together, in a gap, or anywhere in the list, where counts find them: as in a long list that loses
/// targets far from one another.
#[derive(Drop)]
pub enum Holes {
    OneGap(Gap),
    Counted(Box<SlotCounts>),
}

// No free slots.
pub(super) const NO_GAP: Gap = Gap { start: 0, len: 0 };

// What a free slot has.
const FREE: UseSlot = UseSlot {
    target: u32::MAX,
    at: 0,
};

// The slots of so many targets, by ascending key, each with one use.
#[inline(always)]
pub(super) fn new_places(
    alloc: Global,
    first: usize,
    count: usize,
) -> Result<InlineList<UseSlot>, AllocError>
    requires { first + count ≤ key_limit }
    ensures { IfOk result (λ row. row ≡ places_from first count) }
{
    let mut row = InlineList::new(alloc);
    for i in 0..count {
        row.push(UseSlot {
            target: (first + i) as u32,
            at: 0,
        })?;
    }
    Ok(row)
}

// Whether the slots of a user are counted.
#[inline(always)]
pub(super) fn are_counted(holes: &Vec<Holes>, user: u32) -> bool
    requires { user < length holes.now.items }
    ensures { result ≡ is_counted holes.now.items user }
{
    match &holes[user as usize] {
        Holes::OneGap(_) => false,
        Holes::Counted(_) => true,
    }
}

// The gap of a user: none where its slots are counted.
#[inline(always)]
pub(super) fn gap_at(places: &Vec<InlineList<UseSlot>>, holes: &Vec<Holes>, user: u32) -> Gap
    requires holes { HaveHoles places.now.items holes.now.items }
    requires user { user < length holes.now.items }
    ensures gap { result ≡ gap_of holes.now.items user }
    ensures few { length (slice_index_or places.now.items user []) < 2 ^ 32 }
{
    let _ = places[user as usize].count();
    match &holes[user as usize] {
        Holes::OneGap(gap) => *gap,
        Holes::Counted(_) => NO_GAP,
    }
}

// This index of a target of a list.
#[inline(always)]
pub(super) fn place_at(row: &InlineList<UseSlot>, i: usize) -> u32
    requires { i < length (targets_held row.now) }
    ensures { result ≡ i }
{
    row.place(i)
}

// How many targets a user has.
#[inline(always)]
pub(super) fn count_at(places: &Vec<InlineList<UseSlot>>, holes: &Vec<Holes>, user: u32) -> usize
    requires holes { HaveHoles places.now.items holes.now.items }
    requires user { user < length holes.now.items }
    ensures { result ≡ length (targets_held (slice_index_or places.now.items user [])) }
{
    match &holes[user as usize] {
        Holes::OneGap(gap) => places[user as usize].len() - gap.len as usize,
        Holes::Counted(counts) => counts.total(),
    }
}

// The target at an index among those of a list.
#[inline(always)]
pub(super) fn target_at(row: &InlineList<UseSlot>, hole: &Holes, i: usize) -> u32
    requires hole { Tracks row.now hole.now }
    requires index { i < length (targets_held row.now) }
    ensures { slice_get (targets_held row.now) i ≡ Some result }
{
    match hole {
        Holes::OneGap(gap) => target_beside(row, *gap, i),
        Holes::Counted(counts) => target_counted(row, counts, i),
    }
}

// The target at an index among those of a list with a gap.
#[inline(always)]
fn target_beside(row: &InlineList<UseSlot>, gap: Gap, i: usize) -> u32
    requires gap { HasGap row.now gap }
    requires index { i < length (targets_held row.now) }
    ensures { slice_get (targets_held row.now) i ≡ Some result }
{
    let _ = row.len();
    if i < gap.start as usize {
        row.get(i).target
    } else {
        row.get(i + gap.len as usize).target
    }
}

// The target at an index among those of a list whose slots are counted.
fn target_counted(row: &InlineList<UseSlot>, counts: &SlotCounts, i: usize) -> u32
    requires counts { marks row.now ≡ counts.now }
    requires index { i < length (targets_held row.now) }
    ensures { slice_get (targets_held row.now) i ≡ Some result }
{
    row.get(counts.select(i)).target
}

// The index of a taken slot among those that are taken.
#[inline(always)]
pub(super) fn rank_at(row: &InlineList<UseSlot>, hole: &Holes, place: u32) -> u32
    requires hole { Tracks row.now hole.now }
    requires taken { (p : PlaceOf) × (slice_get row.now place ≡ Some p) × (p.target ≢ no_target) }
    ensures { result ≡ rank row.now place }
{
    match hole {
        Holes::OneGap(gap) => rank_beside(row, *gap, place),
        Holes::Counted(counts) => rank_counted(row, counts, place),
    }
}

// The index of a taken slot of a list whose slots are counted, among those that are taken.
fn rank_counted(row: &InlineList<UseSlot>, counts: &SlotCounts, place: u32) -> u32
    requires counts { marks row.now ≡ counts.now }
    requires place { place < length row.now }
    ensures { result ≡ rank row.now place }
{
    let _ = row.len();
    counts.rank(place as usize) as u32
}

// The index of a taken slot of a list with a gap, among those that are taken.
#[inline(always)]
fn rank_beside(row: &InlineList<UseSlot>, gap: Gap, place: u32) -> u32
    requires gap { HasGap row.now gap }
    requires taken { (p : PlaceOf) × (slice_get row.now place ≡ Some p) × (p.target ≢ no_target) }
    ensures { result ≡ rank row.now place }
{
    let _ = row.len();
    if place < gap.start {
        place
    } else {
        place - gap.len
    }
}

// The target in a taken slot of the user moves to a free one.
pub(super) fn relocate(
    places: &mut Vec<InlineList<UseSlot>>,
    uses: &mut Vec<InlineList<Use>>,
    user: u32,
    from: usize,
    to: usize,
)
    requires linked { IsLinked places.old.items uses.old.items }
    requires from { (p : PlaceOf) × (at places.old.items user from ≡ Some p) × (p.target ≢ no_target) }
    requires to { (p : PlaceOf) × (at places.old.items user to ≡ Some p) × (p.target ≡ no_target) }
    ensures linked { IsLinked places.new.items uses.new.items }
    ensures moved { (p : PlaceOf) → at places.old.items user from ≡ Some p → places.new.items ≡ put
        (put places.old.items user to p) user from free_place }
    ensures count { length uses.new.items ≡ length uses.old.items }
    ensures rooms { (vec_len places.new ≡ vec_len places.old) × (vec_capacity places.new ≡ vec_capacity places.old)
        × (vec_len uses.new ≡ vec_len uses.old) × (vec_capacity uses.new ≡ vec_capacity uses.old) }
{
    let UseSlot { target, at } = entry(places, user as usize, from);
    let place = places[user as usize].place(to);
    set_entry(uses, target as usize, at as usize, Use { user, place });
    set_entry(places, user as usize, to, UseSlot { target, at });
    set_entry(places, user as usize, from, FREE);
}

// The gap of the user moves one slot down: the target before it comes behind it.
pub(super) fn lower_gap(
    places: &mut Vec<InlineList<UseSlot>>,
    holes: &mut Vec<Holes>,
    uses: &mut Vec<InlineList<Use>>,
    user: u32,
)
    requires linked { AreLinked places.old.items holes.old.items uses.old.items }
    requires user { user < length holes.old.items }
    requires len { 0 < (gap_of holes.old.items user).len }
    requires start { 0 < (gap_of holes.old.items user).start }
    ensures linked { AreLinked places.new.items holes.new.items uses.new.items }
    ensures targets { targets_in places.new.items ≡ targets_in places.old.items }
    ensures gap { gap_of holes.new.items user ≡ record {
      start = (gap_of holes.old.items user).start - 1;
      len =
          (gap_of holes.old.items user).len;
    } }
    ensures count { length uses.new.items ≡ length uses.old.items }
    ensures rooms { KeepRooms places.old places.new holes.old holes.new uses.old uses.new }
{
    let Gap { start, len } = gap_at(places, holes, user);
    relocate(
        places,
        uses,
        user,
        (start - 1) as usize,
        (start + len - 1) as usize,
    );
    holes[user as usize] = Holes::OneGap(Gap {
        start: start - 1,
        len,
    });
}

// The gap of the user moves one slot up: the target behind it comes before it.
pub(super) fn raise_gap(
    places: &mut Vec<InlineList<UseSlot>>,
    holes: &mut Vec<Holes>,
    uses: &mut Vec<InlineList<Use>>,
    user: u32,
)
    requires linked { AreLinked places.old.items holes.old.items uses.old.items }
    requires user { user < length holes.old.items }
    requires len { 0 < (gap_of holes.old.items user).len }
    requires start { (gap_of holes.old.items user).start < length
        (targets_held (slice_index_or places.old.items user [])) }
    ensures linked { AreLinked places.new.items holes.new.items uses.new.items }
    ensures targets { targets_in places.new.items ≡ targets_in places.old.items }
    ensures gap { gap_of holes.new.items user ≡ record {
      start = (gap_of holes.old.items user).start + 1;
      len =
          (gap_of holes.old.items user).len;
    } }
    ensures count { length uses.new.items ≡ length uses.old.items }
    ensures rooms { KeepRooms places.old places.new holes.old holes.new uses.old uses.new }
{
    let Gap { start, len } = gap_at(places, holes, user);
    relocate(places, uses, user, (start + len) as usize, start as usize);
    holes[user as usize] = Holes::OneGap(Gap {
        start: start + 1,
        len,
    });
}

// The gap of the user moves to its target `i`, or, where it has as many, to the end.
#[inline(always)]
pub(super) fn open_gap(
    places: &mut Vec<InlineList<UseSlot>>,
    holes: &mut Vec<Holes>,
    uses: &mut Vec<InlineList<Use>>,
    user: u32,
    i: usize,
)
    requires linked { AreLinked places.old.items holes.old.items uses.old.items }
    requires user { user < length holes.old.items }
    requires gapped { is_counted holes.old.items user ≡ false }
    requires index { i ≤ length (targets_held (slice_index_or places.old.items user [])) }
    ensures linked { AreLinked places.new.items holes.new.items uses.new.items }
    ensures targets { targets_in places.new.items ≡ targets_in places.old.items }
    ensures start { (gap_of holes.new.items user).start ≡ i }
    ensures len { (gap_of holes.new.items user).len ≡ (gap_of holes.old.items user).len }
    ensures gapped { is_counted holes.new.items user ≡ false }
    ensures count { length uses.new.items ≡ length uses.old.items }
    ensures rooms { KeepRooms places.old places.new holes.old holes.new uses.old uses.new }
{
    if gap_at(places, holes, user).len == 0 {
        holes[user as usize] = Holes::OneGap(Gap {
            start: i as u32,
            len: 0,
        });
        return;
    }
    while gap_at(places, holes, user).start as usize > i {
        lower_gap(places, holes, uses, user);
    }
    while (gap_at(places, holes, user).start as usize) < i {
        raise_gap(places, holes, uses, user);
    }
}

// The target in a taken slot of the user is removed and answered: the slot is free from then on. The last use
// of that target takes the index of the removed use.
#[inline(always)]
pub(super) fn vacate(
    places: &mut Vec<InlineList<UseSlot>>,
    uses: &mut Vec<InlineList<Use>>,
    user: u32,
    place: usize,
) -> u32
    requires linked { IsLinked places.old.items uses.old.items }
    requires taken { (p : PlaceOf) × (at places.old.items user place ≡ Some p) × (p.target ≢ no_target) }
    ensures linked { IsLinked places.new.items uses.new.items }
    ensures target { slice_get (targets_held (slice_index_or places.old.items user []))
        (rank (slice_index_or places.old.items user []) place) ≡ Some result }
    ensures targets { targets_in places.new.items ≡ slice_set (targets_in places.old.items) user (remove (slice_index_or
        (targets_in places.old.items) user []) (rank (slice_index_or places.old.items user []) place)) }
    ensures marks { marks_in places.new.items ≡ slice_set (marks_in places.old.items) user
        (slice_set (marks (slice_index_or places.old.items user [])) place 0) }
    ensures count { length uses.new.items ≡ length uses.old.items }
    ensures rooms { (vec_len places.new ≡ vec_len places.old) × (vec_capacity places.new ≡ vec_capacity places.old)
        × (vec_len uses.new ≡ vec_len uses.old) × (vec_capacity uses.new ≡ vec_capacity uses.old) }
{
    let UseSlot { target, at } = entry(places, user as usize, place);
    let end = uses[target as usize].len() - 1;
    let moved = entry(uses, target as usize, end);
    set_entry(
        places,
        moved.user as usize,
        moved.place as usize,
        UseSlot { target, at },
    );
    set_entry(uses, target as usize, at as usize, moved);
    pop_entry(uses, target as usize);
    set_entry(places, user as usize, place, FREE);
    target
}

// The target behind the gap of the user is removed and answered.
#[inline(always)]
pub(super) fn widen_gap(
    places: &mut Vec<InlineList<UseSlot>>,
    holes: &mut Vec<Holes>,
    uses: &mut Vec<InlineList<Use>>,
    user: u32,
) -> u32
    requires linked { AreLinked places.old.items holes.old.items uses.old.items }
    requires user { user < length holes.old.items }
    requires gapped { is_counted holes.old.items user ≡ false }
    requires start { (gap_of holes.old.items user).start < length
        (targets_held (slice_index_or places.old.items user [])) }
    ensures linked { AreLinked places.new.items holes.new.items uses.new.items }
    ensures target { slice_get (targets_held (slice_index_or places.old.items user []))
        (gap_of holes.old.items user).start ≡ Some result }
    ensures targets { targets_in places.new.items ≡ slice_set (targets_in places.old.items) user (remove (slice_index_or
        (targets_in places.old.items) user []) (gap_of holes.old.items user).start) }
    ensures gapped { is_counted holes.new.items user ≡ false }
    ensures count { length uses.new.items ≡ length uses.old.items }
    ensures rooms { KeepRooms places.old places.new holes.old holes.new uses.old uses.new }
{
    let Gap { start, len } = gap_at(places, holes, user);
    let target = vacate(places, uses, user, (start + len) as usize);
    holes[user as usize] = Holes::OneGap(Gap {
        start,
        len: len + 1,
    });
    target
}

// The gap of the user, which is at the end, is dropped.
#[inline(always)]
pub(super) fn close_gap(places: &mut Vec<InlineList<UseSlot>>, holes: &mut Vec<Holes>, user: u32)
    requires holes { HaveHoles places.old.items holes.old.items }
    requires user { user < length holes.old.items }
    requires gapped { is_counted holes.old.items user ≡ false }
    requires end { (gap_of holes.old.items user).start ≡ length
        (targets_held (slice_index_or places.old.items user [])) }
    ensures places { places.new.items ≡ slice_set places.old.items user (take (gap_of holes.old.items user).start
        (slice_index_or places.old.items user [])) }
    ensures holes { HaveHoles places.new.items holes.new.items }
    ensures gapped { is_counted holes.new.items user ≡ false }
    ensures rooms { (vec_len places.new ≡ vec_len places.old) × (vec_capacity places.new ≡ vec_capacity places.old)
        × (vec_len holes.new ≡ vec_len holes.old) × (vec_capacity holes.new ≡ vec_capacity holes.old) }
{
    let start = gap_at(places, holes, user).start;
    places[user as usize].truncate(start as usize);
    holes[user as usize] = Holes::OneGap(NO_GAP);
}

// The gap of the user is dropped where it is at the end, or longer than there are targets.
#[inline(always)]
pub(super) fn settle_gap(
    places: &mut Vec<InlineList<UseSlot>>,
    holes: &mut Vec<Holes>,
    uses: &mut Vec<InlineList<Use>>,
    user: u32,
)
    requires linked { AreLinked places.old.items holes.old.items uses.old.items }
    requires user { user < length holes.old.items }
    requires gapped { is_counted holes.old.items user ≡ false }
    ensures linked { AreLinked places.new.items holes.new.items uses.new.items }
    ensures targets { targets_in places.new.items ≡ targets_in places.old.items }
    ensures count { length uses.new.items ≡ length uses.old.items }
    ensures rooms { KeepRooms places.old places.new holes.old holes.new uses.old uses.new }
{
    let Gap { start, len } = gap_at(places, holes, user);
    let count = count_at(places, holes, user);
    if (start as usize) < count && len as usize <= count {
        return;
    }
    open_gap(places, holes, uses, user, count);
    close_gap(places, holes, user);
}

// One more target of the user, in a new slot at the end, and one more use of the target.
#[inline(always)]
pub(super) fn push_slot(
    places: &mut Vec<InlineList<UseSlot>>,
    uses: &mut Vec<InlineList<Use>>,
    user: u32,
    target: u32,
) -> Result<(), AllocError>
    requires user { user < length places.old.items }
    requires target { target < length uses.old.items }
    ensures places { OnOk result (places.new.items ≡ slice_set places.old.items user
        (slice_index_or places.old.items user [] ++ record {
          target = target;
          at = length
              (slice_index_or uses.old.items target []);
        } ∷ [])) }
    ensures uses { OnOk result (uses.new.items ≡ slice_set uses.old.items target
        (slice_index_or uses.old.items target [] ++ record {
          user = user;
          place = length
              (slice_index_or places.old.items user []);
        } ∷ [])) }
    ensures err { OnErr result ((places.new.items ≡ places.old.items) × (uses.new.items ≡ uses.old.items)) }
    ensures rooms { (vec_len places.new ≡ vec_len places.old) × (vec_capacity places.new ≡ vec_capacity places.old)
        × (vec_len uses.new ≡ vec_len uses.old) × (vec_capacity uses.new ≡ vec_capacity uses.old) }
{
    let at = uses[target as usize].count();
    let place = places[user as usize].count();
    uses[target as usize].push(Use { user, place })?;
    if let Err(error) = places[user as usize].push(UseSlot { target, at }) {
        uses[target as usize].pop();
        return Err(error);
    }
    Ok(())
}

// The user has a free slot from then on, at the end where it had none.
pub(super) fn make_gap(
    places: &mut Vec<InlineList<UseSlot>>,
    holes: &mut Vec<Holes>,
    uses: &Vec<InlineList<Use>>,
    user: u32,
) -> Result<(), AllocError>
    requires linked { AreLinked places.old.items holes.old.items uses.now.items }
    requires user { user < length holes.old.items }
    requires gapped { is_counted holes.old.items user ≡ false }
    ensures linked { AreLinked places.new.items holes.new.items uses.now.items }
    ensures gapped { is_counted holes.new.items user ≡ false }
    ensures len { OnOk result (0 < (gap_of holes.new.items user).len) }
    ensures targets { targets_in places.new.items ≡ targets_in places.old.items }
    ensures uses { uses_in places.new.items uses.now.items ≡ uses_in places.old.items uses.now.items }
    ensures rooms { KeepRooms places.old places.new holes.old holes.new uses.now uses.now }
{
    if gap_at(places, holes, user).len > 0 {
        return Ok(());
    }
    let start = places[user as usize].count();
    places[user as usize].push(FREE)?;
    holes[user as usize] = Holes::OneGap(Gap { start, len: 1 });
    Ok(())
}

// The last target of the user, which has a free slot, comes to an index: those from there on move up by one place.
pub(super) fn lower_last(
    places: &mut Vec<InlineList<UseSlot>>,
    holes: &mut Vec<Holes>,
    uses: &mut Vec<InlineList<Use>>,
    user: u32,
    i: usize,
)
    requires linked { AreLinked places.old.items holes.old.items uses.old.items }
    requires user { user < length holes.old.items }
    requires len { 0 < (gap_of holes.old.items user).len }
    requires index { i < length (targets_held (slice_index_or places.old.items user [])) }
    ensures linked { AreLinked places.new.items holes.new.items uses.new.items }
    ensures targets { (before : List ℕ) (last : ℕ) → slice_index_or (targets_in places.old.items) user [] ≡ before
        ++ last ∷ [] → targets_in places.new.items ≡ slice_set (targets_in places.old.items) user (insert before i
        last) }
    ensures count { length uses.new.items ≡ length uses.old.items }
    ensures rooms { KeepRooms places.old places.new holes.old holes.new uses.old uses.new }
{
    open_gap(places, holes, uses, user, i);
    let Gap { start, len } = gap_at(places, holes, user);
    let end = places[user as usize].len() - 1;
    relocate(places, uses, user, end, start as usize);
    places[user as usize].truncate(end);
    holes[user as usize] = Holes::OneGap(Gap {
        start: start + 1,
        len: len - 1,
    });
}

// The slots of these uses of `old` name `new`, where the uses are now at the indices from `first` on.
#[inline(always)]
pub(super) fn retarget(
    places: &mut Vec<InlineList<UseSlot>>,
    moved: &InlineList<Use>,
    old: u32,
    new: u32,
    first: usize,
)
    requires listed { (k : ℕ) (u : Use) → slice_get moved.now k ≡ Some u → at places.old.items u.user u.place ≡ Some
        (record { target = old; at = k }) }
    requires placed { (k user place : ℕ) → at places.old.items user place ≡ Some (record { target = old; at = k })
        → slice_get moved.now k ≡ Some (record { user = user; place = place }) }
    requires fits { first + length moved.now ≤ key_limit }
    ensures each { (user place : ℕ) → at places.new.items user place ≡ option_map (retarget_slot old new first
        (length moved.now)) (at places.old.items user place) }
    ensures len { length places.new.items ≡ length places.old.items }
    ensures capacity { vec_capacity places.new ≡ vec_capacity places.old }
{
    for k in 0..moved.len() {
        let Use { user, place } = moved.get(k);
        let row = &mut places[user as usize];
        row.set(
            place as usize,
            UseSlot {
                target: new,
                at: (first + k) as u32,
            },
        );
    }
}
