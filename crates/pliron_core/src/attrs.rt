//! Heads of operations: names with attributes.
ghost use Rattle.std.specs.Prelude.{◌≡◌, ◌<◌, [], ◌∷◌, IfOk, IfErr, string_bytes, IsTrue, ◌↔◌, length, slice_get, slice_set, Some};

use crate::context::NoMemory;
use std::alloc::{AllocFailed, Global};
use std::marker::Model;
use std::ops::BitOrAssign;

/// A text of an attribute, which contracts see as its bytes.
#[derive(Debug, Drop)]
pub struct Text {
    text: String,
}

impl Model for Text {
    ghost use Rattle.std.specs.Prelude.{ℕ, List, string_bytes};

    ghost Value = { List ℕ };

    ghost view = { λ t. string_bytes t.text };
}

impl Text {
    /// The string as a text. Takes no memory. Cost: constant.
    pub fn new(text: String) -> Self
        ensures { result ≡ string_bytes text }
    {
        Text { text }
    }

    /// The text as a string. Cost: constant.
    pub fn as_str(&self) -> &str
        ensures { result.now ≡ self.now }
    {
        self.text.as_str()
    }
}

impl PartialEq for Text {
    ghost use Rattle.std.specs.Prelude.{nat_eq};
    ghost use Rattle.std.specs.Cmp.{partial_equiv_from_equiv};
    ghost use Rattle.std.specs.Cmp.Lexicographic.{pointwise, nat_list_eq_equiv};

    ghost eq = { λ x y. pointwise nat_eq x y };

    ghost laws = { partial_equiv_from_equiv nat_list_eq_equiv };

    fn eq(&self, other: &Self) -> bool {
        self.as_str() == other.as_str()
    }
}

impl Eq for Text {
    ghost use Rattle.std.specs.Cmp.Lexicographic.{nat_list_eq_equiv};

    ghost laws = { nat_list_eq_equiv };
}

/// An attribute of an operation: a constant's datum, or a count.
#[derive(Debug, Drop, PartialEq, Eq)]
pub enum AttrObj {
    Int(i128),
    Text(Text),
}

impl AttrObj {
    /// Whether both hold the same datum. Cost: the length of a text.
    pub fn is_same(&self, other: &AttrObj) -> bool
        ensures { IsTrue result ↔ (self.now ≡ other.now) }
    {
        self == other
    }

    /// An equal attribute.
    ///
    /// Errors: allocation failure. Cost: the length of a text.
    pub fn copy(&self, alloc: Global) -> Result<AttrObj, NoMemory>
        ensures { IfOk result (λ attr. attr ≡ self.now) }
    {
        match self {
            AttrObj::Int(number) => Ok(AttrObj::Int(*number)),
            AttrObj::Text(text) => Ok(AttrObj::Text(Text {
                text: String::from_str(alloc, text.as_str())?,
            })),
        }
    }
}

/// Attributes in order, which contracts see as a list.
#[derive(Drop)]
pub struct Attrs {
    attrs: Vec<AttrObj>,
}

impl Model for Attrs {
    ghost use Rattle.std.specs.Prelude.{List};
    ghost use Rattle.pliron_core.specs.declared.attrs.AttrObj.{AttrObj};

    ghost Value = { List AttrObj };

    ghost view = { λ a. a.attrs.items };
}

impl Attrs {
    /// These attributes. Takes no memory. Cost: constant.
    pub fn new(attrs: Vec<AttrObj>) -> Self
        ensures { result ≡ attrs.items }
    {
        Attrs { attrs }
    }

    /// One attribute, in memory for no more. Errors: allocation failure, which hands it back. Cost: constant.
    #[inline(always)]
    pub fn one(alloc: Global, attr: AttrObj) -> Result<Self, AllocFailed<AttrObj>>
        ensures ok { IfOk result (λ attrs. attrs ≡ attr ∷ []) }
        ensures err { IfErr result (λ refused. refused.value ≡ attr) }
    {
        match Vec::with_capacity(alloc, 1) {
            Ok(mut attrs) => {
                attrs.push_reserved(attr);
                Ok(Attrs { attrs })
            }
            Err(_) => Err(AllocFailed { value: attr }),
        }
    }

    /// How many there are. Cost: constant.
    pub fn len(&self) -> usize
        ensures { result ≡ length self.now }
    {
        self.attrs.len()
    }

    /// Whether there is none. Cost: constant.
    pub fn is_empty(&self) -> bool
        ensures { IsTrue result ↔ (self.now ≡ []) }
    {
        self.attrs.is_empty()
    }

    /// The attribute at this index. Asks that there is one (`len` tests it). Cost: constant.
    pub fn get(&self, i: usize) -> &AttrObj
        requires { i < length self.now }
        ensures { slice_get self.now i ≡ Some result.now }
    {
        &self.attrs[i]
    }

    /// Replaces the attribute at this index. Asks that there is one (`len` tests it). Takes no memory. Cost:
    /// constant.
    pub fn set(&mut self, i: usize, attr: AttrObj)
        requires { i < length self.old }
        ensures { self.new ≡ slice_set self.old i attr }
    {
        self.attrs[i] = attr;
    }

    /// The attributes as a `Vec`. Takes no memory. Cost: constant.
    pub fn into_vec(self) -> Vec<AttrObj>
        ensures { result.items ≡ self }
    {
        self.attrs
    }
}

/// Whether a rewrite changed the tree.
#[derive(Clone, Copy, Debug, Drop, PartialEq, Eq)]
pub enum IRStatus {
    Changed,
    Unchanged,
}

impl Default for IRStatus {
    ghost use Rattle.pliron_core.specs.declared.attrs.IRStatus.TheVariants.{Unchanged};

    ghost is_default = { λ status. status ≡ Unchanged };

    /// `Unchanged`.
    fn default() -> Self {
        IRStatus::Unchanged
    }
}

impl BitOrAssign for IRStatus {
    ghost use Rattle.pliron_core.specs.Status.{changed_by_either};

    ghost bitor_assign_gives = { λ a b c. c ≡ changed_by_either a b };

    /// `Changed` if one of them is.
    fn bitor_assign(&mut self, other: IRStatus) {
        if other == IRStatus::Changed {
            *self = other;
        }
    }
}

/// What an operation is, apart from its block and its operands: its name and attributes.
#[derive(Drop)]
pub struct Head {
    pub kind: u32,
    pub ssa: bool,
    pub attrs: Attrs,
}
