//! What a rule puts in the place of a result.
ghost use Rattle.std.specs.Prelude.{◌≡◌};

use pliron_core::{AttrObj, Head, Value};
use std::marker::Model;

/// A value of the view, or a new constant.
#[derive(Drop)]
pub enum Atom {
    /// This value of the view.
    Named(Value),
    /// A new operation that makes this constant.
    Constant(AttrObj),
}

/// Atoms in order, which contracts see as a list.
#[derive(Drop)]
pub struct Atoms {
    atoms: Vec<Atom>,
}

impl Model for Atoms {
    ghost use Rattle.std.specs.Prelude.{List};
    ghost use Rattle.pliron_rewrite_rules.specs.declared.term.Atom.{Atom};

    ghost Value = { List Atom };

    ghost view = { λ a. a.atoms.items };
}

impl Atoms {
    /// These atoms. Takes no memory. Cost: constant.
    pub fn new(atoms: Vec<Atom>) -> Self
        ensures { result ≡ atoms.items }
    {
        Atoms { atoms }
    }

    /// The atoms as a slice. Cost: constant.
    pub fn as_slice(&self) -> &[Atom]
        ensures { result.now ≡ self.now }
    {
        self.atoms.as_slice()
    }
}

/// What a rule answers.
#[derive(Drop)]
pub enum Term {
    /// A value of the view, or a constant.
    Atomic(Atom),
    /// A new operation with this head, these operands and one result.
    Make(Head, Atoms),
}
