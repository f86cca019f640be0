//! Nodes in doubly linked lists, both named by keys that count up. Each call but `reserve` takes
//! constant time and no memory.

ghost use Rattle.std.specs.Prelude.{◌≡◌, ◌+◌, ◌-◌, ◌<◌, ◌≤◌, [], ◌∷◌, ◌++◌, length, slice_set, slice_index_or, IsOk, OnOk, IfSome, Some, None, vec_len, vec_capacity};
ghost use Rattle.pliron_core.specs.Keys.{key_limit};
ghost use Rattle.pliron_core.specs.Lists.{Lists, owner_of, list_of, first_of, last_of, without, put_before, next_in_lists, prev_in_lists, AreOwned};
ghost use Rattle.pliron_core.specs.Nodes.{with_next, with_prev, with_first, with_tail, InRange};

use std::alloc::{AllocError, Global};
use std::marker::Model;

/// Nodes, each in one list at most, and the lists. The links run in both directions, and each list
/// knows its first and its last node. Here list 0 has the nodes 2 and 0, and no list has node 1:
///
/// ```text
/// ends[0]    head 2, tail 0
/// nodes[2]   owner 0, no prev, next 0
/// nodes[0]   owner 0, prev 2, no next
/// nodes[1]   no owner, no prev, no next
/// ```
///
/// A node takes 12 bytes and the ends of a list 8: no key is the number `u32::MAX`, which stands for none.
#[derive(Drop)]
pub struct Links {
    nodes: Vec<Node>,
    ends: Vec<Ends>,
}

#[derive(Clone, Copy)]
struct Node {
    owner: OptionalKey,
    prev: OptionalKey,
    next: OptionalKey,
}

#[derive(Clone, Copy)]
struct Ends {
    head: OptionalKey,
    tail: OptionalKey,
}

// A key or none, in 32 bits: `u32::MAX` is none.
#[derive(Clone, Copy)]
struct OptionalKey {
    written: u32,
}

impl Model for OptionalKey {
    ghost use Rattle.std.specs.Prelude.{ℕ, Option};
    ghost use Rattle.pliron_core.specs.OptionalKeys.{key_read, key_written, written_as_read};

    ghost Value = { Option ℕ };

    ghost view = { λ k. key_read k.written };

    ghost inverse = { λ k. record { written = key_written k } };

    ghost inverse_ok = { λ k h i. record { written = written_as_read k.written i } };
}

impl OptionalKey {
    #[inline(always)]
    fn none() -> Self
        ensures { result ≡ None }
    {
        OptionalKey { written: u32::MAX }
    }

    #[inline(always)]
    fn some(key: u32) -> Self
        requires { key < key_limit }
        ensures { result ≡ Some key }
    {
        OptionalKey { written: key }
    }

    #[inline(always)]
    fn get(self) -> Option<u32>
        ensures { result ≡ self }
    {
        if self.written == u32::MAX {
            None
        } else {
            Some(self.written)
        }
    }
}

impl Model for Links {
    ghost use Rattle.pliron_core.specs.Lists.{Lists};

    ghost Value = { Lists };

    ghost use Rattle.std.specs.Prelude.{◌-◌, vec_capacity, vec_len};
    ghost use Rattle.pliron_core.specs.Nodes.{lists_of, owners_of, AreSoundLists};

    ghost view = { λ c. record {
      lists = lists_of c.nodes.items c.ends.items;
      owners = owners_of c.nodes.items;
      node_room = vec_capacity c.nodes - vec_len c.nodes;
      list_room = vec_capacity c.ends - vec_len c.ends;
    } };

    ghost invariant = { λ c. AreSoundLists c.nodes.items c.ends.items (lists_of c.nodes.items c.ends.items) };
}

// Makes `next` follow the node `before`, or at the head where there is none.
fn link_next(nodes: &mut Vec<Node>, ends: &mut Ends, before: OptionalKey, next: OptionalKey)
    requires { InRange nodes.old.items before }
    ensures nodes { nodes.new.items ≡ with_next nodes.old.items before next }
    ensures len { vec_len nodes.new ≡ vec_len nodes.old }
    ensures capacity { vec_capacity nodes.new ≡ vec_capacity nodes.old }
    ensures ends { ends.new ≡ with_first ends.old before next }
{
    match before.get() {
        Some(key) => {
            let node = &mut nodes[key as usize];
            node.next = next;
        }
        None => ends.head = next,
    }
}

// Makes `prev` precede the node `after`, or at the tail where there is none.
fn link_prev(nodes: &mut Vec<Node>, ends: &mut Ends, after: OptionalKey, prev: OptionalKey)
    requires { InRange nodes.old.items after }
    ensures nodes { nodes.new.items ≡ with_prev nodes.old.items after prev }
    ensures len { vec_len nodes.new ≡ vec_len nodes.old }
    ensures capacity { vec_capacity nodes.new ≡ vec_capacity nodes.old }
    ensures ends { ends.new ≡ with_tail ends.old after prev }
{
    match after.get() {
        Some(key) => {
            let node = &mut nodes[key as usize];
            node.prev = prev;
        }
        None => ends.tail = prev,
    }
}

impl Links {
    /// No nodes and no lists, and room for none. Takes no memory. Cost: constant.
    pub fn new(alloc: Global) -> Self
        ensures { result ≡ record { lists = []; owners = []; node_room = 0; list_room = 0 } }
    {
        Links {
            nodes: Vec::new(alloc),
            ends: Vec::new(alloc),
        }
    }

    /// A law: the nodes of a list are owned by it, and nothing else is, and no node is in a list twice. It does
    /// nothing.
    pub fn agree(&self)
        ensures { AreOwned self.now.owners self.now.lists }
    {
        let _ = &self.nodes;
    }

    /// A law: each list has a key. It does nothing.
    pub fn few_lists(&self)
        ensures { length self.now.lists ≤ key_limit }
    {
        let _ = &self.ends;
    }

    /// The list that has the node, if one does. Asks that the node is one that was added. Cost: constant.
    pub fn owner(&self, node: u32) -> Option<u32>
        requires { node < length self.now.owners }
        ensures owner { result ≡ owner_of self.now node }
        ensures within { IfSome result (λ list. list < length self.now.lists) }
    {
        self.nodes[node as usize].owner.get()
    }

    /// Makes room for so many more nodes and so many more lists, which then take no memory.
    ///
    /// Errors: allocation failure, where only the room may have grown. Cost: constant where there is room
    /// already, and otherwise linear in the tables' length, which grow so that room asked for one by one is
    /// constant each, amortised.
    #[inline(always)]
    pub fn reserve(&mut self, nodes: usize, lists: usize) -> Result<(), AllocError>
        ensures kept { self.new ≡ record self.old {
          node_room = self.new.node_room;
          list_room = self.new.list_room;
        } }
        ensures node_room { OnOk result (nodes ≤ self.new.node_room) }
        ensures list_room { OnOk result (lists ≤ self.new.list_room) }
        ensures more_nodes { self.old.node_room ≤ self.new.node_room }
        ensures more_lists { self.old.list_room ≤ self.new.list_room }

        // It is refused only where room was missing.
        ensures succeeds { nodes ≤ self.old.node_room → lists ≤ self.old.list_room → IsOk result }
    {
        self.nodes.reserve(nodes)?;
        self.ends.reserve(lists)
    }

    /// A new node, in no list. The keys count up from 0. Asks that there is room for it, and that its key fits 32
    /// bits. Cost: constant.
    #[inline(always)]
    pub fn add_node(&mut self) -> u32
        requires room { 0 < self.old.node_room }
        requires few { length self.old.owners < key_limit }
        ensures key { result ≡ length self.old.owners }
        ensures added { self.new ≡ record self.old {
          owners = self.old.owners ++ None ∷ [];
          node_room = self.old.node_room - 1;
        } }
    {
        let key = self.nodes.len() as u32;
        self.nodes.push_reserved(Node {
            owner: OptionalKey::none(),
            prev: OptionalKey::none(),
            next: OptionalKey::none(),
        });
        key
    }

    /// A new list, without nodes. The keys count up from 0. Asks that there is room for it, and that its key fits 32
    /// bits. Cost: constant.
    #[inline(always)]
    pub fn add_list(&mut self) -> u32
        requires room { 0 < self.old.list_room }
        requires few { length self.old.lists < key_limit }
        ensures key { result ≡ length self.old.lists }
        ensures added { self.new ≡ record self.old {
          lists = self.old.lists ++ [] ∷ [];
          list_room = self.old.list_room - 1;
        } }
    {
        let key = self.ends.len() as u32;
        self.ends.push_reserved(Ends {
            head: OptionalKey::none(),
            tail: OptionalKey::none(),
        });
        key
    }

    /// Inserts the node at the front of the list. Asks that both were added and that no list has the node.
    /// Cost: constant.
    pub fn push_front(&mut self, list: u32, node: u32)
        requires list { list < length self.old.lists }
        requires node { node < length self.old.owners }
        requires free { owner_of self.old node ≡ None }
        ensures { self.new ≡ record self.old {
          lists = slice_set self.old.lists list (node ∷ list_of self.old list);
          owners = slice_set self.old.owners node (Some list);
        } }
    {
        let mut ends = self.ends[list as usize];
        let after = ends.head;
        self.nodes[node as usize] = Node {
            owner: OptionalKey::some(list),
            prev: OptionalKey::none(),
            next: after,
        };
        let added = OptionalKey::some(node);
        link_next(&mut self.nodes, &mut ends, OptionalKey::none(), added);
        link_prev(&mut self.nodes, &mut ends, after, added);
        self.ends[list as usize] = ends;
    }

    /// Inserts the node at the end of the list. Asks that both were added and that no list has the node. Cost:
    /// constant.
    #[inline(always)]
    pub fn push_back(&mut self, list: u32, node: u32)
        requires list { list < length self.old.lists }
        requires node { node < length self.old.owners }
        requires free { owner_of self.old node ≡ None }
        ensures { self.new ≡ record self.old {
          lists = slice_set self.old.lists list (list_of self.old list ++ node ∷ []);
          owners = slice_set self.old.owners node (Some list);
        } }
    {
        let mut ends = self.ends[list as usize];
        let before = ends.tail;
        self.nodes[node as usize] = Node {
            owner: OptionalKey::some(list),
            prev: before,
            next: OptionalKey::none(),
        };
        let added = OptionalKey::some(node);
        link_next(&mut self.nodes, &mut ends, before, added);
        link_prev(&mut self.nodes, &mut ends, OptionalKey::none(), added);
        self.ends[list as usize] = ends;
    }

    /// Inserts the node directly before the node `at` of this list. Asks that the list has `at`, and that the
    /// node was added and no list has it. Cost: constant.
    #[inline(always)]
    pub fn insert_before(&mut self, list: u32, at: u32, node: u32)
        requires held { owner_of self.old at ≡ Some list }
        requires node { node < length self.old.owners }
        requires free { owner_of self.old node ≡ None }
        ensures { self.new ≡ record self.old {
          lists = slice_set self.old.lists list (put_before at node (list_of self.old list));
          owners = slice_set self.old.owners node (Some list);
        } }
    {
        let before = self.nodes[at as usize].prev;
        let mut ends = self.ends[list as usize];
        self.nodes[node as usize] = Node {
            owner: OptionalKey::some(list),
            prev: before,
            next: OptionalKey::some(at),
        };
        let added = OptionalKey::some(node);
        link_next(&mut self.nodes, &mut ends, before, added);
        link_prev(&mut self.nodes, &mut ends, OptionalKey::some(at), added);
        self.ends[list as usize] = ends;
    }

    /// Takes the node out of the list that has it; the others keep their order. Asks that this list has it.
    /// Cost: constant.
    #[inline(always)]
    pub fn remove(&mut self, list: u32, node: u32)
        requires held { owner_of self.old node ≡ Some list }
        ensures { self.new ≡ record self.old {
          lists = slice_set self.old.lists list (without node (list_of self.old list));
          owners = slice_set self.old.owners node None;
        } }
    {
        let Node { prev, next, .. } = self.nodes[node as usize];
        let mut ends = self.ends[list as usize];
        link_next(&mut self.nodes, &mut ends, prev, next);
        link_prev(&mut self.nodes, &mut ends, next, prev);
        self.ends[list as usize] = ends;
        self.nodes[node as usize] = Node {
            owner: OptionalKey::none(),
            prev: OptionalKey::none(),
            next: OptionalKey::none(),
        };
    }

    /// The node directly after this one in the list that has it: none at the list's end, nor for a node in no
    /// list. Asks that the node is one that was added. Cost: constant.
    pub fn next(&self, node: u32) -> Option<u32>
        requires { node < length self.now.owners }
        ensures next { result ≡ next_in_lists self.now node }
        ensures same_owner { IfSome result (λ other. owner_of self.now other ≡ owner_of self.now node) }
    {
        let Node { owner, next, .. } = self.nodes[node as usize];
        match owner.get() {
            Some(_) => next.get(),
            None => None,
        }
    }

    /// The node directly before this one in the list that has it: none at the list's front, nor for a node in
    /// no list. Asks that the node is one that was added. Cost: constant.
    pub fn prev(&self, node: u32) -> Option<u32>
        requires { node < length self.now.owners }
        ensures prev { result ≡ prev_in_lists self.now node }
        ensures same_owner { IfSome result (λ other. owner_of self.now other ≡ owner_of self.now node) }
    {
        let Node { owner, prev, .. } = self.nodes[node as usize];
        match owner.get() {
            Some(_) => prev.get(),
            None => None,
        }
    }

    /// The first node of the list; none if the list is empty. Asks that the list is one that was added. Cost:
    /// constant.
    pub fn head(&self, list: u32) -> Option<u32>
        requires { list < length self.now.lists }
        ensures first { result ≡ first_of (list_of self.now list) None }
        ensures owned { IfSome result (λ node. owner_of self.now node ≡ Some list) }
    {
        self.ends[list as usize].head.get()
    }

    /// The last node of the list; none if the list is empty. Asks that the list is one that was added. Cost:
    /// constant.
    pub fn tail(&self, list: u32) -> Option<u32>
        requires { list < length self.now.lists }
        ensures last { result ≡ last_of None (list_of self.now list) }
        ensures owned { IfSome result (λ node. owner_of self.now node ≡ Some list) }
    {
        self.ends[list as usize].tail.get()
    }
}
