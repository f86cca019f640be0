//! What is known of operations by their names.
ghost use Rattle.std.specs.Prelude.{◌≡◌, IfOk};
ghost use Rattle.pliron_text_mlir_reader.specs.Said.{without_quotes as without_quotes_of};
ghost use Rattle.pliron_text_mlir_reader.specs.Known.{known_name, known_in_quotes, AreKnownNames};

use crate::owned::{OwnedProperty, owned_by};
use pliron_dialect_mlir::{Class, class_named};
use pliron_text_mlir_syntax::{Fault, Texts};
use std::alloc::Global;

/// What is known of operations of a name.
#[derive(Clone, Copy, Debug)]
pub struct KnownName {
    pub class: Option<Class>,
    /// What is read of the properties that it owns.
    pub owned: OwnedProperty,
    /// Whether it is a tag of a block, by which other operations name the block.
    pub is_tag: bool,
}

/// What is known of the names that a text has.
#[derive(Drop)]
pub struct KnownNames {
    names: Texts,
    /// By the numbers of names.
    known: Vec<KnownName>,
    ghost known_so: { AreKnownNames names known.items },
}

/// The part without quotes. Cost: constant.
pub fn without_quotes(name: &[u8]) -> &[u8]
    ensures { result.now ≡ without_quotes_of name.now }
{
    match name.strip_prefix(b"\"".as_slice()) {
        Some(rest) => rest.strip_suffix(b"\"".as_slice()).unwrap_or(rest),
        None => name,
    }
}

// What is known of this name, without quotes.
fn look_up(name: &[u8]) -> KnownName
    ensures { result ≡ known_name name.now }
{
    KnownName {
        class: class_named(name),
        owned: owned_by(name),
        is_tag: name == b"llvm.blocktag".as_slice(),
    }
}

impl KnownNames {
    /// No names yet. Takes no memory. Cost: constant.
    #[tactic(auto, using(crate::proofs::KnownLemmas::none_known))]
    pub fn new(alloc: Global) -> Self {
        KnownNames {
            names: Texts::new(alloc),
            known: Vec::new(alloc),
        }
    }

    /// What is known of this name, which has its quotes. Errors: allocation failure. Cost: its length.
    pub fn get(&mut self, name: &[u8]) -> Result<KnownName, Fault>
        ensures { IfOk result (λ known. known ≡ known_in_quotes name.now) }
    {
        let number = self.names.number(name)?;
        if let Some(found) = self.known.get(number) {
            return Ok(*found);
        }
        let found = look_up(without_quotes(name));
        if number == self.known.len() {
            self.known.push(found)?;
        }
        Ok(found)
    }
}
