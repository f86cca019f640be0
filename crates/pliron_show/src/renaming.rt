//! A printed operation with other names for its values and blocks.
//!
//! The notations of `Bench` and of dialects by roles print values as `v0`, `v1`, .. in each `func` and blocks as `b0`, `b1`, .. in each region.
ghost use Rattle.pliron_core.specs.Tree.{IsLive};

use crate::definition_order::DefinitionOrder;
use crate::shown::{NameScopes, NameSource, NewNames};
use pliron_core::{BasicBlock, Context, Ptr, Value};
use pliron_driver::{Document, Notation};
use pliron_laws::OptError;
use std::alloc::{AllocError, Global};

/// What new names begin with, as those that are printed do.
pub static LETTERS: NewNames = NewNames {
    value: "v",
    block: "b",
};

/// A printed text that is written with other names so far.
#[derive(Drop)]
struct Renaming<'r, T> {
    names: &'r T,
    order: &'r DefinitionOrder,
    /// The function whose values are named, as `DefinitionOrder` counts them.
    function: usize,
    /// How many regions opened, and those that are open.
    opened: usize,
    open: Vec<usize>,
    written: String,
}

// The number behind the first letter of the word, where that is this one.
fn number_behind(word: &str, letter: char) -> Option<usize> {
    word.strip_prefix(letter)?.parse::<usize>().ok()
}

impl<T: NameSource> Renaming<'_, T> {
    // Writes a word: the other name, where it is that of a value or a block.
    fn push_word(&mut self, word: &str) -> Result<(), AllocError> {
        if word == "func" {
            self.function = self.function.saturating_add(1);
        }
        if let Some(value) = self.value_of(word) {
            return self.names.push_value(value.key(), &mut self.written);
        }
        if let Some(block) = self.block_of(word) {
            return self.names.push_block(block.key(), &mut self.written);
        }
        self.written.push_str(word)
    }

    // The value that the word stands for.
    fn value_of(&self, word: &str) -> Option<Value> {
        let number = number_behind(word, 'v')?;
        let function = self.order.functions.get(self.function)?;
        function.get(number).copied()
    }

    // The block that the word stands for.
    fn block_of(&self, word: &str) -> Option<Ptr<BasicBlock>> {
        let number = number_behind(word, 'b')?;
        let region = self.open.last().copied()?;
        let blocks = self.order.regions.get(region)?;
        blocks.get(number).copied()
    }

    // Writes a sign or a blank.
    fn push_sign(&mut self, sign: char) -> Result<(), AllocError> {
        match sign {
            '{' => {
                self.open.push(self.opened)?;
                self.opened = self.opened.saturating_add(1);
            }
            '}' => {
                let _ = self.open.pop();
            }
            _ => {}
        }
        self.written.push(sign)
    }

    // Writes the printed text.
    fn push_text(&mut self, alloc: Global, printed: &str) -> Result<(), AllocError> {
        let mut word = String::new(alloc);
        for letter in printed.chars() {
            if letter.is_ascii_alphanumeric() || letter == '_' {
                word.push(letter)?;
                continue;
            }
            if !word.is_empty() {
                self.push_word(word.as_str())?;
                word.clear();
            }
            self.push_sign(letter)?;
        }
        if word.is_empty() {
            Ok(())
        } else {
            self.push_word(word.as_str())
        }
    }
}

// The printed text of the operation that is defined in this order, with these names. Errors: allocation failure.
fn rename_text<T: NameSource>(
    alloc: Global,
    printed: &str,
    names: &T,
    order: &DefinitionOrder,
) -> Result<String, AllocError> {
    let mut renaming = Renaming {
        names,
        order,
        function: 0,
        opened: 0,
        open: Vec::new(alloc),
        written: String::new(alloc),
    };
    renaming.push_text(alloc, printed)?;
    Ok(renaming.written)
}

/// Prints the operation, and renames what it is printed with. Asks that it is live (`is_live` tests it). Errors:
/// allocation failure. Cost: that of printing, and of the names.
pub fn print_renamed<N: Notation + NameScopes, T: NameSource>(
    alloc: Global,
    document: &Document<N::Sheet>,
    names: &T,
    ctx: &Context,
) -> Result<Vec<u8>, OptError>
    requires { IsLive ctx.now.tree document.now.root }
{
    let printed = N::print_document(alloc, document, ctx)?;
    let text = std::str::from_utf8(&printed).unwrap_or("");
    let order = DefinitionOrder::of::<N>(alloc, document.root, ctx)?;
    Ok(rename_text(alloc, text, names, &order)?.into_bytes())
}
