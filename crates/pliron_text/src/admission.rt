//! Whether a dialect admits what a text has.
ghost use Rattle.std.specs.Prelude.{◌≡◌, [], ◌∷◌, length, IfOk, IfSome, IsTrue, None};
ghost use Rattle.pliron_dialect.specs.Roles.{meaning_by, role_at, allows_at};
ghost use Rattle.pliron_text.specs.Notation.{IsAdmittedSyntax, IsAdmittedText, attributes_of_text, head_of_text};

use crate::syntax::{AttributeText, OperationText, Syntax};
use pliron_core::{AttrObj, Attrs, Head};
use pliron_dialect::{Roles, admits_head};
use std::alloc::{AllocError, Global};

// The attribute that a text writes, if it writes one.
#[inline(always)]
fn attribute_of(text: AttributeText) -> Option<AttrObj>
    ensures some { IfSome result (λ attr. attributes_of_text text ≡ attr ∷ []) }
    ensures none { result ≡ None → attributes_of_text text ≡ [] }
{
    match text {
        AttributeText::Nothing => None,
        AttributeText::Number(number) => Some(AttrObj::Int(number as i128)),
        AttributeText::Count(count) => Some(AttrObj::Int(count as i128)),
    }
}

/// The head of an operation of a text. Errors: allocation failure. Cost: constant.
#[inline(always)]
pub fn head_of(alloc: Global, text: &OperationText) -> Result<Head, AllocError>
    ensures { IfOk result (λ head. head ≡ head_of_text text.now) }
{
    let attrs = match attribute_of(text.attribute) {
        Some(attr) => Attrs::one(alloc, attr)?,
        None => Attrs::new(Vec::new(alloc)),
    };
    Ok(Head {
        kind: text.kind,
        ssa: text.ssa,
        attrs,
    })
}

// Whether the dialect has operations with this head and the counts of the text.
#[inline(always)]
fn admits_counts<K: Roles>(head: &Head, text: &OperationText) -> bool
    ensures { result ≡ (meaning_by K.tables.value (role_at K.tables) (allows_at K.tables)).admits head.now
        (length text.now.operands.items) text.now.results (length text.now.successors.items) text.now.regions }
{
    admits_head::<K>(
        head,
        text.operands.len(),
        text.results,
        text.successors.len(),
        text.regions,
    )
}

// Whether the dialect has operations with the head and the counts of the text. The head is made in the memory of a head
// with one attribute.
#[tactic(auto, using(crate::proofs::CheckLemmas::set_one))]
#[inline(always)]
fn is_admitted<K: Roles>(alloc: Global, made: &mut Head, text: &OperationText) -> bool
    requires room { length made.old.attrs ≡ 1 }
    ensures room { length made.new.attrs ≡ 1 }
    ensures admitted { IsTrue result → IsAdmittedText (meaning_by K.tables.value (role_at K.tables)
        (allows_at K.tables)) text.now }
{
    match attribute_of(text.attribute) {
        Some(attr) => {
            made.kind = text.kind;
            made.ssa = text.ssa;
            made.attrs.set(0, attr);
            admits_counts::<K>(made, text)
        }
        None => {
            let bare = Head {
                kind: text.kind,
                ssa: text.ssa,
                attrs: Attrs::new(Vec::new(alloc)),
            };
            admits_counts::<K>(&bare, text)
        }
    }
}

/// The first operation of a text that the dialect of these kinds doesn't admit, in the order of the text: 0 is the
/// whole text, and behind it each operation has its number and 1 more.
///
/// Errors: allocation failure. Cost: one step for each operation and each edge.
pub fn first_not_admitted<K: Roles>(
    alloc: Global,
    syntax: &Syntax,
) -> Result<Option<usize>, AllocError>
    ensures { IfOk result (λ found. found ≡ None → IsAdmittedSyntax (meaning_by K.tables.value (role_at K.tables)
        (allows_at K.tables)) syntax.now) }
{
    let mut made = Head {
        kind: 0,
        ssa: false,
        attrs: Attrs::one(alloc, AttrObj::Int(0))?,
    };
    let admits_root = is_admitted::<K>(alloc, &mut made, &syntax.root);
    if !admits_root {
        return Ok(Some(0));
    }
    for number in 0..syntax.operations.len() {
        let admits_operation = is_admitted::<K>(alloc, &mut made, &syntax.operations[number]);
        if !admits_operation {
            return Ok(Some(number + 1));
        }
    }
    Ok(None)
}
