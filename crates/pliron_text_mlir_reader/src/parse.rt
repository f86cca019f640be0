//! From a text to its syntax and its sheet.
use crate::reader::Reader;
use crate::taken_head::TakenHead;
use pliron_text_mlir_syntax::{Fault, ModuleSyntax, Sheet};
use std::alloc::Global;

/// What a text says of a tree, by numbers, and beside it.
#[doc(hidden)]
#[derive(Drop)]
pub struct ParsedModule {
    pub syntax: ModuleSyntax,
    /// By the numbers of operations.
    pub heads: Vec<Option<TakenHead>>,
    pub sheet: Sheet,
}

/// What the text in the generic form says of a tree, by numbers, and beside it.
///
/// A function that has more than 64 regions in one another, or tags of blocks, is kept as it is written: only where the
/// first reading meets one, the text is read once more. Errors: the place where the
/// text leaves the grammar or uses what isn't defined, and what was expected; allocation failure. Cost: linear in the
/// text, but for uses in regions inside the one that defines their value, which cost a step for each region between.
#[doc(hidden)]
pub fn parse_text(alloc: Global, text: &[u8]) -> Result<ParsedModule, Fault> {
    match parse_keeping(alloc, text, false) {
        Err(Fault::KeptAsText) => parse_keeping(alloc, text, true),
        parsed => parsed,
    }
}

// What the text says; a function that would be refused is kept as it is written, if `keeps` says so.
fn parse_keeping(alloc: Global, text: &[u8], keeps: bool) -> Result<ParsedModule, Fault> {
    let mut reader = Reader::new(alloc, text, keeps);
    let read = reader.read();
    let Reader {
        alloc: _,
        cursor: _,
        keeps: _,
        syntax,
        heads,
        sheet,
        names: _,
        values: _,
        blocks: _,
        num_value: _,
        open: _,
        block: _,
        properties: _,
        attributes: _,
        operand: _,
        types: _,
    } = reader;
    match read {
        Ok(()) => Ok(ParsedModule {
            syntax,
            heads,
            sheet,
        }),
        Err(fault) => Err(fault),
    }
}
