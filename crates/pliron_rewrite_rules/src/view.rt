//! What a rule sees of an operation.
ghost use Rattle.std.specs.Prelude.{◌≡◌};

use pliron_core::{AttrObj, Head, Value};
use std::marker::Model;

/// A value that is looked through no further. Equal values are one: a rule may compare them.
#[derive(Drop)]
pub enum Leaf {
    /// Nothing is known of it.
    Unknown(Value),
    /// It is this constant.
    Known(Value, AttrObj),
}

/// Leaves in order, which contracts see as a list.
#[derive(Drop)]
pub struct Leaves {
    leaves: Vec<Leaf>,
}

impl Model for Leaves {
    ghost use Rattle.std.specs.Prelude.{List};
    ghost use Rattle.pliron_rewrite_rules.specs.declared.view.Leaf.{Leaf};

    ghost Value = { List Leaf };

    ghost view = { λ l. l.leaves.items };
}

impl Leaves {
    /// These leaves. Takes no memory. Cost: constant.
    pub fn new(leaves: Vec<Leaf>) -> Self
        ensures { result ≡ leaves.items }
    {
        Leaves { leaves }
    }

    /// The leaves as a slice. Cost: constant.
    pub fn as_slice(&self) -> &[Leaf]
        ensures { result.now ≡ self.now }
    {
        self.leaves.as_slice()
    }
}

/// An operand of the operation that a rule sees.
#[derive(Drop)]
pub enum Operand {
    /// A leaf.
    Plain(Leaf),
    /// A value that a pure operation makes, with its head and its operands.
    Made(Value, Head, Leaves),
}

/// Operands in order, which contracts see as a list.
#[derive(Drop)]
pub struct Operands {
    operands: Vec<Operand>,
}

impl Model for Operands {
    ghost use Rattle.std.specs.Prelude.{List};
    ghost use Rattle.pliron_rewrite_rules.specs.declared.view.Operand.{Operand};

    ghost Value = { List Operand };

    ghost view = { λ o. o.operands.items };
}

impl Operands {
    /// These operands. Takes no memory. Cost: constant.
    pub fn new(operands: Vec<Operand>) -> Self
        ensures { result ≡ operands.items }
    {
        Operands { operands }
    }

    /// The operands as a slice. Cost: constant.
    pub fn as_slice(&self) -> &[Operand]
        ensures { result.now ≡ self.now }
    {
        self.operands.as_slice()
    }
}

/// What a rule sees of a pure operation: its head, and its operands.
#[derive(Drop)]
pub struct View {
    pub head: Head,
    pub operands: Operands,
}
