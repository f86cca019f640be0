//! Operand lists and use lists: which targets each user names, in order, and where each target is used.

ghost use Rattle.std.specs.Prelude.{◌≡◌, ◌≢◌, ◌+◌, ◌-◌, ◌<◌, ◌≤◌, [], ◌∷◌, ◌++◌, length, map, slice_set, vec_capacity, vec_len, slice_get, Some, IfOk, OnOk, OnErr, IsOk, remove, replicate};
ghost use Rattle.std.specs.List.{insert, range_with_len};
ghost use Rattle.pliron_core.specs.Keys.{key_limit};
ghost use Rattle.pliron_core.specs.Uses.{targets_of, table_uses, AreAgreed, replace_target};
ghost use Rattle.pliron_core.specs.UseSlots.{uses_by};

use crate::clearance::empty_places;
use crate::counted_slots::{count_places, settle_places, take_counted};
use crate::inline_list::{InlineList, entry, pop_entry, set_entry};
use crate::keys::next_key;
use crate::use_slots::{
    Holes, NO_GAP, UseSlot, are_counted, count_at, lower_last, make_gap, new_places, open_gap,
    place_at, push_slot, rank_at, retarget, settle_gap, target_at, widen_gap,
};
use std::alloc::{AllocError, Global};
use std::marker::Model;
use std::mem;

/// The targets of each user and the uses of each target, all named by keys that count up.
///
/// Each slot knows the index of its use, and each use its slot, so either is found from the other in one step.
/// Here user 0 names the targets 5, 7 and 5, after its second target was removed:
///
/// ```text
/// places[0]   0: 5 at 0   1: free   2: 7 at 0   3: 5 at 1     holes[0] = one gap: start 1, len 1
/// uses[5]     0: user 0, place 0    1: user 0, place 3        place 3 is index 2: behind the gap, 3 - 1
/// uses[7]     0: user 0, place 2
/// ```
///
/// The gap moves to each removed target, over all slots between. So a user that is about to lose many targets,
/// far from one another, may have its slots counted (`index`): the free ones then stay where they are, and
/// counts say, in a logarithm of the number of slots, how many are taken before one, and where the i-th taken
/// one is. Counting ends with `settle`, or when the user gets one more target.
#[derive(Drop)]
pub struct Uses {
    places: Vec<InlineList<UseSlot>>,
    holes: Vec<Holes>,
    uses: Vec<InlineList<Use>>,
}

/// A use: the user, and the index among its targets.
#[derive(Clone, Copy, PartialEq, Eq)]
pub struct Use {
    pub user: u32,
    pub place: u32,
}

impl Model for Uses {
    ghost use Rattle.pliron_core.specs.Uses.{Table};

    ghost Value = { Table };

    ghost use Rattle.std.specs.Prelude.{◌-◌, min, vec_capacity, vec_len};
    ghost use Rattle.pliron_core.specs.UseSlots.{no_target, targets_in, uses_in};
    ghost use Rattle.pliron_core.specs.Holes.{AreLinked};

    ghost view = { λ c. record {
      targets = targets_in c.places.items;
      uses = uses_in c.places.items c.uses.items;
      user_room = min (vec_capacity c.places - vec_len c.places) (vec_capacity c.holes - vec_len c.holes);
      target_room = min (vec_capacity c.uses - vec_len c.uses) (no_target - vec_len c.uses);
    } };

    ghost invariant = { λ c. AreLinked c.places.items c.holes.items c.uses.items };
}

impl Uses {
    /// No users and no targets. Takes no memory. Cost: constant.
    pub fn new(alloc: Global) -> Self
        ensures { result ≡ record { targets = []; uses = []; user_room = 0; target_room = 0 } }
    {
        Uses {
            places: Vec::new(alloc),
            holes: Vec::new(alloc),
            uses: Vec::new(alloc),
        }
    }

    /// Each slot has one use, and each use its slot.
    ///
    /// A law for callers' proofs: it does nothing.
    pub fn agree(&self)
        ensures { AreAgreed self.now.targets self.now.uses }
    {
        let _ = &self.uses;
    }

    /// How many users there are. Cost: constant.
    pub fn num_users(&self) -> usize
        ensures { result ≡ length self.now.targets }
    {
        self.places.len()
    }

    /// How many targets a user has. Asks that there is such a user. Cost: constant.
    #[inline(always)]
    pub fn num_targets(&self, user: u32) -> usize
        requires { user < length self.now.targets }
        ensures { result ≡ length (targets_of self.now user) }
    {
        count_at(&self.places, &self.holes, user)
    }

    /// The target at a place of a user. Asks that there are such a user and such a place (`num_targets` tests
    /// it). Cost: constant, and a logarithm where its slots are counted.
    #[inline(always)]
    pub fn target(&self, user: u32, place: usize) -> u32
        requires user { user < length self.now.targets }
        requires place { place < length (targets_of self.now user) }
        ensures { slice_get (targets_of self.now user) place ≡ Some result }
    {
        target_at(
            &self.places[user as usize],
            &self.holes[user as usize],
            place,
        )
    }

    /// An index of a target, in 32 bits. Asks that there are such a user and such a target. Cost: constant.
    #[inline(always)]
    pub fn place(&self, user: u32, i: usize) -> u32
        requires user { user < length self.now.targets }
        requires index { i < length (targets_of self.now user) }
        ensures { result ≡ i }
    {
        place_at(&self.places[user as usize], i)
    }

    /// How many uses a target has. Asks that there is such a target. Cost: constant.
    #[inline(always)]
    pub fn num_uses(&self, target: u32) -> usize
        requires { target < length self.now.uses }
        ensures { result ≡ length (table_uses self.now target) }
    {
        self.uses[target as usize].len()
    }

    /// The use of a target at an index, in no given order. Asks that there is such a target, and that the index
    /// is below `num_uses`. Cost: constant, and a logarithm where the slots of the user are counted.
    #[inline(always)]
    pub fn get_use(&self, target: u32, i: usize) -> Use
        requires target { target < length self.now.uses }
        requires place { i < length (table_uses self.now target) }
        ensures { slice_get (table_uses self.now target) i ≡ Some result }
    {
        let Use { user, place } = self.uses[target as usize].get(i);
        let place = rank_at(
            &self.places[user as usize],
            &self.holes[user as usize],
            place,
        );
        Use { user, place }
    }

    /// Makes room for so many more users and so many more targets.
    ///
    /// Errors: allocation failure, which leaves users, targets and uses as they were.
    /// Cost: constant per user or target, amortised.
    #[inline(always)]
    pub fn reserve(&mut self, users: usize, targets: usize) -> Result<(), AllocError>
        ensures kept { self.new ≡ record self.old {
          user_room = self.new.user_room;
          target_room =
              self.new.target_room;
        } }
        ensures room { OnOk result ((users ≤ self.new.user_room) × (targets ≤ self.new.target_room)) }
    {
        self.places.reserve(users)?;
        self.holes.reserve(users)?;
        self.uses.reserve(targets)?;
        next_key(self.uses.len() + targets)?;
        Ok(())
    }

    /// A new user, without targets. Asks that room for it is reserved. Cost: constant.
    #[inline(always)]
    pub fn add_user(&mut self, alloc: Global) -> usize
        requires { 0 < self.old.user_room }
        ensures key { result ≡ length self.old.targets }
        ensures added { self.new ≡ record self.old {
          targets = self.old.targets ++ [] ∷ [];
          user_room =
              self.old.user_room - 1;
        } }
    {
        let key = self.places.len();
        self.places.push_reserved(InlineList::new(alloc));
        self.holes.push_reserved(Holes::OneGap(NO_GAP));
        key
    }

    /// A new target, without uses. Asks that room for it is reserved. Cost: constant.
    #[inline(always)]
    pub fn add_target(&mut self, alloc: Global) -> usize
        requires { 0 < self.old.target_room }
        ensures key { result ≡ length self.old.uses }
        ensures added { self.new ≡ record self.old {
          uses = self.old.uses ++ [] ∷ [];
          target_room = self.old.target_room
              - 1;
        } }
    {
        let key = self.uses.len();
        self.uses.push_reserved(InlineList::new(alloc));
        key
    }

    /// So many new targets, without uses. Asks that room for them is reserved. Cost: one step for each.
    #[inline(always)]
    pub fn add_targets(&mut self, alloc: Global, count: usize)
        requires { count ≤ self.old.target_room }
        ensures { self.new ≡ record self.old {
          uses = self.old.uses ++ replicate count [];
          target_room =
              self.old.target_room - count;
        } }
    {
        for _ in 0..count {
            self.add_target(alloc);
        }
    }

    /// A new user, with so many new targets, which no other user has.
    ///
    /// Errors: allocation failure, which leaves users, targets and uses as they were. Cost: one step for
    /// each target, amortised.
    pub fn add_user_with(&mut self, alloc: Global, count: usize) -> Result<(), AllocError>
        ensures targets { OnOk result (self.new.targets ≡ self.old.targets ++ range_with_len (length self.old.uses)
            count ∷ []) }
        ensures count { OnOk result (length self.new.uses ≡ length self.old.uses + count) }
        ensures err { OnErr result ((self.new.targets ≡ self.old.targets) × (self.new.uses ≡ self.old.uses)) }
    {
        self.places.reserve(1)?;
        self.holes.reserve(1)?;
        self.uses.reserve(count)?;
        next_key(self.uses.len() + count)?;
        let row = new_places(alloc, self.uses.len(), count)?;
        let user = next_key(self.places.len())?;
        add_used(&mut self.uses, alloc, user, count)?;
        self.places.push_reserved(row);
        self.holes.push_reserved(Holes::OneGap(NO_GAP));
        Ok(())
    }

    /// The user gets one more target, at the end.
    ///
    /// Asks that there are such a user and such a target. Errors: allocation failure, which leaves all as it was.
    /// Cost: constant, amortised. Counted slots are settled first.
    #[inline(always)]
    pub fn push(&mut self, user: u32, target: u32) -> Result<(), AllocError>
        requires user { user < length self.old.targets }
        requires target { target < length self.old.uses }
        ensures targets { OnOk result (self.new.targets ≡ slice_set self.old.targets user
            (targets_of self.old user ++ target ∷ [])) }
        ensures count { length self.new.uses ≡ length self.old.uses }
        ensures rooms { (self.new.user_room ≡ self.old.user_room) × (self.new.target_room ≡ self.old.target_room) }
        ensures err { OnErr result (self.new ≡ self.old) }
    {
        settle_places(&mut self.places, &mut self.holes, &mut self.uses, user);
        push_slot(&mut self.places, &mut self.uses, user, target)?;
        Ok(())
    }

    /// The user gets one more target, at the end, which is a new one: no other user has it. Answers its key.
    ///
    /// Asks that there is such a user. Errors: allocation failure, which leaves users, targets and uses as they
    /// were. Cost: constant, amortised. Counted slots are settled first.
    pub fn push_new(&mut self, alloc: Global, user: u32) -> Result<u32, AllocError>
        requires { user < length self.old.targets }
        ensures key { IfOk result (λ key. key ≡ length self.old.uses) }
        ensures targets { OnOk result (self.new.targets ≡ slice_set self.old.targets user (targets_of self.old user
            ++ length self.old.uses ∷ [])) }
        ensures count { OnOk result (length self.new.uses ≡ length self.old.uses + 1) }
        ensures err { OnErr result ((self.new.targets ≡ self.old.targets) × (self.new.uses ≡ self.old.uses)) }
    {
        self.uses.reserve(1)?;
        let target = next_key(self.uses.len())?;
        settle_places(&mut self.places, &mut self.holes, &mut self.uses, user);
        self.uses.push_reserved(InlineList::new(alloc));
        if let Err(error) = push_slot(&mut self.places, &mut self.uses, user, target) {
            self.uses.pop();
            return Err(error);
        }
        Ok(target)
    }

    /// The user gets one more target, at this index. The targets from there on move up by one place.
    ///
    /// Asks that there are such a user and such a target, and that the index is at most the number of its targets.
    /// Errors: allocation failure, which leaves all as it was. Cost: the number of targets from the index on, and
    /// of those between it and the place where the user lost one last; amortised. Counted slots are settled first.
    pub fn insert(&mut self, user: u32, place: usize, target: u32) -> Result<(), AllocError>
        requires user { user < length self.old.targets }
        requires place { place ≤ length (targets_of self.old user) }
        requires target { target < length self.old.uses }
        ensures targets { OnOk result (self.new.targets ≡ slice_set self.old.targets user (insert
            (targets_of self.old user) place target)) }
        ensures count { length self.new.uses ≡ length self.old.uses }
        ensures rooms { (self.new.user_room ≡ self.old.user_room) × (self.new.target_room ≡ self.old.target_room) }
        ensures err { OnErr result (self.new ≡ self.old) }
    {
        settle_places(&mut self.places, &mut self.holes, &mut self.uses, user);
        make_gap(&mut self.places, &mut self.holes, &self.uses, user)?;
        push_slot(&mut self.places, &mut self.uses, user, target)?;
        lower_last(
            &mut self.places,
            &mut self.holes,
            &mut self.uses,
            user,
            place,
        );
        Ok(())
    }

    /// Every use of `old` becomes one of `new`.
    ///
    /// Asks that there are both targets and that they are two. Errors: allocation failure, which leaves all as
    /// it was. A target without uses takes over the room of `old`, so then no allocation fails.
    /// Cost: the number of uses of `old`, amortised.
    pub fn replace(&mut self, alloc: Global, old: u32, new: u32) -> Result<(), AllocError>
        requires old { old < length self.old.uses }
        requires new { new < length self.old.uses }
        requires differ { old ≢ new }
        ensures targets { OnOk result (self.new.targets ≡ map (map (replace_target old new)) self.old.targets) }
        ensures count { length self.new.uses ≡ length self.old.uses }
        ensures rooms { (self.new.user_room ≡ self.old.user_room) × (self.new.target_room ≡ self.old.target_room) }
        ensures unused { table_uses self.old new ≡ [] → IsOk result }
        ensures err { OnErr result (self.new ≡ self.old) }
    {
        if self.uses[new as usize].is_empty() {
            self.hand_over(old, new);
            return Ok(());
        }
        let moved = mem::replace(&mut self.uses[old as usize], InlineList::new(alloc));
        if let Err(error) = self.uses[new as usize].extend(&moved) {
            self.uses[old as usize] = moved;
            return Err(error);
        }
        let end = self.uses[new as usize].count() as usize;
        let first = end - moved.len();
        retarget(&mut self.places, &moved, old, new, first);
        Ok(())
    }

    // Every use of `old` becomes one of `new`, which has none. Takes no memory.
    fn hand_over(&mut self, old: u32, new: u32)
        requires old { old < length self.old.uses }
        requires new { new < length self.old.uses }
        requires differ { old ≢ new }
        requires unused { table_uses self.old new ≡ [] }
        ensures targets { self.new.targets ≡ map (map (replace_target old new)) self.old.targets }
        ensures count { length self.new.uses ≡ length self.old.uses }
        ensures rooms { (self.new.user_room ≡ self.old.user_room) × (self.new.target_room ≡ self.old.target_room) }
    {
        self.uses.swap(old as usize, new as usize);
        let _ = self.uses[new as usize].count();
        retarget(&mut self.places, &self.uses[new as usize], old, new, 0);
    }

    /// The slots of a user are counted from now on, if it has many, so that targets far from one another are
    /// removed quickly.
    ///
    /// Asks that there is such a user. Errors: allocation failure. Nothing that contracts see changes.
    /// Cost: the number of its slots.
    pub fn index(&mut self, alloc: Global, user: u32) -> Result<(), AllocError>
        requires { user < length self.old.targets }
        ensures { self.new ≡ self.old }
    {
        count_places(alloc, &self.places, &mut self.holes, user)
    }

    /// The slots of a user are not counted from now on: reads are constant again.
    ///
    /// Asks that there is such a user. Takes no memory. Nothing that contracts see changes. Cost: the number of
    /// its slots when they were counted, and constant where they are not.
    pub fn settle(&mut self, user: u32)
        requires { user < length self.old.targets }
        ensures { self.new ≡ self.old }
    {
        settle_places(&mut self.places, &mut self.holes, &mut self.uses, user);
    }

    /// Removes the target at a place, and answers it. The later ones move down by one place.
    ///
    /// Asks that there are such a user and such a place. Takes no memory. Cost: the number of targets between
    /// it and the place where one was removed last, and constant for the first; amortised, a constant and at
    /// most twice the number of targets after it. A logarithm where its slots are counted.
    #[inline(always)]
    pub fn remove(&mut self, user: u32, place: usize) -> u32
        requires user { user < length self.old.targets }
        requires place { place < length (targets_of self.old user) }
        ensures target { slice_get (targets_of self.old user) place ≡ Some result }
        ensures targets { self.new.targets ≡ slice_set self.old.targets user (remove (targets_of self.old user) place) }
        ensures count { length self.new.uses ≡ length self.old.uses }
        ensures rooms { (self.new.user_room ≡ self.old.user_room) × (self.new.target_room ≡ self.old.target_room) }
    {
        if are_counted(&self.holes, user) {
            return take_counted(
                &mut self.places,
                &mut self.holes,
                &mut self.uses,
                user,
                place,
            );
        }
        open_gap(
            &mut self.places,
            &mut self.holes,
            &mut self.uses,
            user,
            place,
        );
        let target = widen_gap(&mut self.places, &mut self.holes, &mut self.uses, user);
        settle_gap(&mut self.places, &mut self.holes, &mut self.uses, user);
        target
    }

    /// Removes all targets of a user, which are not counted from then on. Asks that there is such a user. Takes no
    /// memory. Cost: the number of its slots.
    #[inline(always)]
    pub fn clear(&mut self, user: u32)
        requires { user < length self.old.targets }
        ensures targets { self.new.targets ≡ slice_set self.old.targets user [] }
        ensures count { length self.new.uses ≡ length self.old.uses }
        ensures rooms { (self.new.user_room ≡ self.old.user_room) × (self.new.target_room ≡ self.old.target_room) }
    {
        if !self.places[user as usize].is_empty() {
            empty_places(&mut self.places, &mut self.holes, &mut self.uses, user);
        }
    }
}

// So many new targets, each with one use: the user names them in order.
fn add_used(
    uses: &mut Vec<InlineList<Use>>,
    alloc: Global,
    user: u32,
    count: usize,
) -> Result<(), AllocError>
    requires room { vec_len uses.old + count ≤ vec_capacity uses.old }
    requires fits { count ≤ key_limit }
    ensures ok { OnOk result (uses.new.items ≡ uses.old.items ++ uses_by user count) }
    ensures err { OnErr result (uses.new.items ≡ uses.old.items) }
{
    let first = uses.len();
    for place in 0..count {
        let mut row = InlineList::new(alloc);
        if let Err(error) = row.push(Use {
            user,
            place: place as u32,
        }) {
            uses.truncate(first);
            return Err(error);
        }
        uses.push_reserved(row);
    }
    Ok(())
}
