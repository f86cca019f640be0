//! Nodes in an order, with the place of each.
ghost use Rattle.std.specs.Prelude.{◌≡◌, ◌<◌, IfOk, IfSome, IsOkUnless, get_or, is_some, length, position};
ghost use Rattle.std.specs.List.{IsDistinct, list_any};
ghost use Rattle.pliron_graph_traversal.specs.Search.{number_in};
ghost use Rattle.pliron_graph_traversal.specs.Internal.Numbers.{GivesPlaces, number_hashed, number_in_bytes};

use crate::traversal::index_nodes;
use indexmap::IndexSet;
use pliron_laws::OptError;
use std::alloc::Global;
use std::hash::{Hash, Hasher};
use std::marker::Model;

// Keeps the lowest 32 bits of the number that was hashed last.
#[derive(Drop)]
struct LastNumber {
    number: u32,
}

impl Hasher for LastNumber {
    ghost use Rattle.pliron_graph_traversal.specs.Internal.Numbers.{after_write};

    ghost write = { after_write };

    ghost finish = { λ last. last.number };

    fn finish(&self) -> u64 {
        self.number as u64
    }

    fn write(&mut self, bytes: &[u8]) {
        self.number = low_number(bytes);
    }
}

// The lowest 32 bits of a number by its bytes, the lowest first; 0 of fewer bytes.
fn low_number(bytes: &[u8]) -> u32
    ensures { result ≡ number_in_bytes bytes.now }
{
    if bytes.len() < 4 {
        return 0;
    }
    u32::from_le_bytes([bytes[0], bytes[1], bytes[2], bytes[3]])
}

// The number that a node hashes as. Equal nodes have one number.
fn number_of<N: Hash>(node: &N) -> usize
    ensures { result ≡ number_hashed (N.hash_input node.now) }
{
    let mut last = LastNumber { number: 0 };
    node.hash(&mut last);
    last.number as usize
}

// The places of nodes: of each number one more than that of its node, or 0 where it has none; or by hash.
#[derive(Drop)]
enum NodePlaces<N: Eq + Hash> {
    Numbered(Vec<N>, Vec<u32>),
    Hashed(IndexSet<N>),
}

/// Nodes in an order, each once, with the place of each.
///
/// A node is found by a table where each has a number of its own that it hashes as, and by hash where not.
#[derive(Drop)]
pub struct NodeSet<N: Eq + Hash> {
    places: NodePlaces<N>,
}

impl<N: Eq + Hash> Model for NodeSet<N> {
    ghost use Rattle.std.specs.Prelude.{List};
    ghost use Rattle.pliron_graph_traversal.specs.Internal.Numbers.{nodes_of, AreGiven};

    ghost Value = { List N };

    ghost view = { λ s. nodes_of s.places };

    ghost invariant = { λ s. AreGiven N.hash_input s.places };
}

impl<N: Eq + Hash + Copy> NodeSet<N> {
    /// The nodes of a set that finds them by hash. Takes no memory. Cost: constant.
    pub fn from_set(nodes: IndexSet<N>) -> Self
        ensures { result ≡ nodes.keys }
    {
        NodeSet {
            places: NodePlaces::Hashed(nodes),
        }
    }

    /// These nodes, found by number if each hashes as a number of its own below `bound`. Asks that they are distinct.
    /// Errors: allocation failure. Cost: a read for each node and each number below `bound`, and a look-up in a hashed
    /// table for each node that is found by hash.
    pub fn new(alloc: Global, nodes: Vec<N>, bound: usize) -> Result<Self, OptError>
        requires { IsDistinct N.eq nodes.items }
        ensures nodes { IfOk result (λ s. s ≡ nodes.items) }
        ensures memory { IsOkUnless result OptError.Memory }
    {
        match marks_of(alloc, &nodes, bound)? {
            Some(marks) => Ok(NodeSet {
                places: NodePlaces::Numbered(nodes, marks),
            }),
            None => Ok(NodeSet::from_set(index_nodes(alloc, &nodes)?)),
        }
    }

    /// The place of a node, if it is one of them. Takes no memory. Cost: one table look-up.
    pub fn get_index_of(&self, node: &N) -> Option<usize>
        ensures index { result ≡ position (N.eq node.now) self.now }
        ensures found { is_some result ≡ list_any (N.eq node.now) self.now }
        ensures within { IfSome result (λ k. k < length self.now) }
    {
        match &self.places {
            NodePlaces::Numbered(nodes, marks) => marked_place(nodes, marks, node),
            NodePlaces::Hashed(nodes) => nodes.get_index_of(node),
        }
    }

    /// The place of a node, or the number of nodes for what is none. Takes no memory. Cost: one table look-up.
    pub fn place_of(&self, node: &N) -> usize
        ensures { result ≡ number_in N.eq self.now node.now }
    {
        self.get_index_of(node).unwrap_or(self.len())
    }

    /// Whether this is one of the nodes. Takes no memory. Cost: one table look-up.
    pub fn contains(&self, node: &N) -> bool
        ensures { result ≡ list_any (N.eq node.now) self.now }
    {
        self.get_index_of(node).is_some()
    }

    /// How many nodes there are. Takes no memory. Cost: constant.
    pub fn len(&self) -> usize
        ensures { result ≡ length self.now }
    {
        self.as_slice().len()
    }

    /// The nodes in their order. Takes no memory. Cost: constant.
    pub fn as_slice(&self) -> &[N]
        ensures { result.now ≡ self.now }
    {
        match &self.places {
            NodePlaces::Numbered(nodes, _) => nodes,
            NodePlaces::Hashed(nodes) => nodes.as_slice(),
        }
    }
}

// Of each number one more than the place of its node, if each node has a number of its own below `bound`.
fn marks_of<N: Eq + Hash>(
    alloc: Global,
    nodes: &[N],
    bound: usize,
) -> Result<Option<Vec<u32>>, OptError>
    ensures gives { IfOk result (λ found. IfSome found (λ marks. GivesPlaces N.hash_input nodes.now marks.items)) }
    ensures memory { IsOkUnless result OptError.Memory }
{
    if nodes.len() > u32::MAX as usize {
        return Ok(None);
    }
    let mut marks = vec![in alloc; 0u32; bound]?;
    for place in 0..nodes.len() {
        let number = number_of(&nodes[place]);
        if number >= bound || marks[number] != 0 {
            return Ok(None);
        }
        marks[number] = (place + 1) as u32;
    }
    Ok(Some(marks))
}

// The mark of a number, or 0 past the end of the table.
fn mark_at(marks: &[u32], number: usize) -> usize
    ensures { result ≡ get_or marks.now number 0 }
{
    if number < marks.len() {
        marks[number] as usize
    } else {
        0
    }
}

// The place of a node, by these marks.
fn marked_place<N: Eq + Hash>(nodes: &[N], marks: &[u32], node: &N) -> Option<usize>
    requires { GivesPlaces N.hash_input nodes.now marks.now }
    ensures { result ≡ position (N.eq node.now) nodes.now }
{
    let number = number_of(node);
    let mark = mark_at(marks, number);
    if 0 < mark && mark <= nodes.len() && *node == nodes[mark - 1] {
        return Some(mark - 1);
    }
    None
}
