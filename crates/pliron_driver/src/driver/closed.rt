//! Notations whose texts proofs know by name alone.
ghost use Rattle.pliron_driver.specs.Closed.{closed_reads, closed_prints};

use super::notation::{Document, Notation, TextFailure};
use pliron_core::Context;
use pliron_laws::OptError;
use std::alloc::Global;
use std::marker::PhantomData;

/// The notation, closed to proofs: one that runs over it has what a text says only from reading that very text, and what
/// is printed of a tree only from printing that tree.
///
/// A notation of which it is open what its texts say would else allow any text in the place of the one that was given.
pub struct ClosedNotation<N>(PhantomData<N>);

impl<N: Notation> Notation for ClosedNotation<N> {
    type D = N::D;

    type Rules = N::Rules;

    type Sheet = N::Sheet;

    type Fault = N::Fault;

    ghost reads = { closed_reads N.reads };

    ghost prints = { closed_prints N.prints };

    fn read_document(
        alloc: Global,
        text: &[u8],
        ctx: &mut Context,
    ) -> Result<Document<N::Sheet>, TextFailure<N::Fault>> {
        N::read_document(alloc, text, ctx)
    }

    fn print_document(
        alloc: Global,
        document: &Document<N::Sheet>,
        ctx: &Context,
    ) -> Result<Vec<u8>, OptError> {
        N::print_document(alloc, document, ctx)
    }

    fn empty_sheet(alloc: Global) -> N::Sheet {
        N::empty_sheet(alloc)
    }
}
