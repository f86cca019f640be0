//! Sets that list their members in the order of their insertion.
ghost use Rattle.std.specs.Prelude.{◌≡◌, ◌<◌, ℕ, not, List, [], IfOk, OnOk, IsOkUnless, length, slice_index};
ghost use Rattle.std.specs.List.{IsDistinct, list_any};
ghost use Rattle.indexmap.specs.IndexSet.{insert_key};
ghost use Rattle.pliron_graph_traversal.specs.Search.{number_in};
ghost use Rattle.pliron_graph_traversal.specs.Internal.Marks.{mark_of_member};

use indexmap::IndexSet;
use pliron_laws::OptError;
use std::alloc::Global;
use std::hash::Hash;
use std::marker::Model;

/// A set that lists its members in the order of their insertion, and knows the place of each.
pub trait ListedSet<N: Eq>: Drop {
    // The members in that order.
    ghost listed: { Self → List N };

    /// A set without members. Takes no memory.
    fn empty(alloc: Global) -> Self
        ensures empty { listed result ≡ [] };

    /// Inserts a member last, unless it is one already. Answers whether it was none. Errors: allocation failure.
    fn insert(&mut self, member: N) -> Result<bool, OptError>
        ensures added { IfOk result (λ r. r ≡ not (list_any (N.eq member) (listed self.old))) }
        ensures keys { OnOk result (listed self.new ≡ insert_key N.eq (listed self.old) member) }
        ensures unique { OnOk result (IsDistinct N.eq (listed self.new)) }
        ensures memory { IsOkUnless result OptError.Memory };

    /// Whether this is a member. Takes no memory.
    fn contains(&self, member: &N) -> bool
        ensures { result ≡ list_any (N.eq member.now) (listed self.now) };

    /// The place of a member, or the number of members for what is none. Takes no memory.
    fn place_of(&self, member: &N) -> usize
        ensures { result ≡ number_in N.eq (listed self.now) member.now };

    /// How many members there are. Takes no memory.
    fn len(&self) -> usize
        ensures len { result ≡ length (listed self.now) };

    /// The members, in the order of their insertion. Takes no memory.
    fn as_slice(&self) -> &[N]
        ensures keys { result.now ≡ listed self.now };
}

/// By a hashed table: each call costs a look-up.
impl<N: Eq + Hash + Copy> ListedSet<N> for IndexSet<N> {
    ghost listed = { λ s. s.keys };

    fn empty(alloc: Global) -> Self {
        IndexSet::new(alloc)
    }

    fn insert(&mut self, member: N) -> Result<bool, OptError> {
        Ok(IndexSet::insert(self, member)?)
    }

    fn contains(&self, member: &N) -> bool {
        IndexSet::contains(self, member)
    }

    fn place_of(&self, member: &N) -> usize {
        self.get_index_of(member).unwrap_or(IndexSet::len(self))
    }

    fn len(&self) -> usize {
        IndexSet::len(self)
    }

    fn as_slice(&self) -> &[N] {
        IndexSet::as_slice(self)
    }
}

/// A set of small numbers, by a table of places.
///
/// The table is as long as the greatest member asks, so that a member costs a read.
#[derive(Drop)]
pub struct NumberSet {
    members: Vec<u32>,
    // By number: one more than its place among the members, or 0 where it is none.
    marks: Vec<usize>,
}

impl Model for NumberSet {
    ghost use Rattle.pliron_graph_traversal.specs.Internal.Marks.{AreMarksOf};
    ghost use Rattle.std.specs.Prelude.{ℕ, List};

    ghost Value = { List ℕ };

    ghost view = { λ s. s.members.items };

    ghost invariant = { λ s. AreMarksOf s.members.items s.marks.items };
}

impl NumberSet {
    // One more than the place of the number, or 0 where it is no member.
    fn mark(&self, number: u32) -> usize
        ensures { result ≡ mark_of_member self.now number }
    {
        let index = number as usize;
        if index < self.marks.len() {
            self.marks[index]
        } else {
            0
        }
    }
}

// Makes the table long enough for the index. What is new in it is 0.
fn lengthen(table: &mut Vec<usize>, index: usize) -> Result<(), OptError>
    ensures within { OnOk result (index < length table.new.items) }
    ensures same { (k : ℕ) → slice_index table.new.items k ≡ slice_index table.old.items k }
    ensures memory { IsOkUnless result OptError.Memory }
{
    while table.len() <= index {
        table.push(0)?;
    }
    Ok(())
}

impl ListedSet<u32> for NumberSet {
    ghost listed = { λ s. s };

    fn empty(alloc: Global) -> Self {
        NumberSet {
            members: Vec::new(alloc),
            marks: Vec::new(alloc),
        }
    }

    fn insert(&mut self, member: u32) -> Result<bool, OptError> {
        if self.mark(member) != 0 {
            return Ok(false);
        }
        let index = member as usize;
        lengthen(&mut self.marks, index)?;
        self.members.push(member)?;
        self.marks[index] = self.members.len();
        Ok(true)
    }

    fn contains(&self, member: &u32) -> bool {
        self.mark(*member) != 0
    }

    fn place_of(&self, member: &u32) -> usize {
        let mark = self.mark(*member);
        if mark == 0 {
            self.members.len()
        } else {
            mark - 1
        }
    }

    fn len(&self) -> usize {
        self.members.len()
    }

    fn as_slice(&self) -> &[u32] {
        &self.members
    }
}
