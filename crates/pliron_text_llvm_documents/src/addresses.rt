//! Functions that other text names by their blocks.
use memchr::memmem;
use pliron_text_mlir_syntax::Texts;
use std::alloc::{AllocError, Global};

// The word before a function and a block whose address is taken.
const ADDRESS_WORD: &[u8] = b"blockaddress";

// Lines that begin so count uses.
const ORDER_WORD: &[u8] = b"uselistorder";

/// The functions of a text that are kept for what names their blocks.
#[derive(Drop)]
pub struct TakenAddresses {
    /// All are.
    all: bool,
    /// The names of those that are, without `@` and quotes.
    names: Texts,
}

impl TakenAddresses {
    /// Whether the function of this name, with its `@`, is one of them. Errors: allocation failure. Cost: its length.
    pub fn has(&mut self, name: &[u8]) -> Result<bool, AllocError> {
        if self.all {
            return Ok(true);
        }
        let Some(plain) = plain_name(name) else {
            return Ok(!self.names.is_empty());
        };
        let known = self.names.len();
        let number = self.names.number(plain)?;
        Ok(number < known)
    }
}

// The name without `@` and quotes; none of one with escapes, and of what is no name.
fn plain_name(name: &[u8]) -> Option<&[u8]> {
    let inside = match name {
        [b'@', b'"', inside @ .., b'"'] => inside,
        [b'@', inside @ ..] => inside,
        _ => return None,
    };
    if inside.iter().any(|byte| *byte == b'\\') {
        None
    } else {
        Some(inside)
    }
}

// Whether the byte may stand in a name without quotes.
fn is_name_byte(byte: u8) -> bool {
    byte.is_ascii_alphanumeric() || matches!(byte, b'-' | b'$' | b'.' | b'_')
}

// Whether the byte stands between words.
fn is_blank(byte: u8) -> bool {
    matches!(byte, b' ' | b'\t' | b'\r' | b'\n')
}

// The bytes from the first one on that isn't blank.
fn behind_blanks(bytes: &[u8]) -> &[u8] {
    match bytes.iter().position(|byte| !is_blank(*byte)) {
        Some(at) => &bytes[at..],
        None => &[],
    }
}

// How long the name is with which the bytes begin, behind its `@`, if it ends.
fn length_of_name(bytes: &[u8]) -> Option<usize> {
    match bytes {
        [b'"', inside @ ..] => {
            let end = inside.iter().position(|byte| *byte == b'"')?;
            Some(end.saturating_add(2))
        }
        _ => bytes.iter().position(|byte| !is_name_byte(*byte)),
    }
}

/// What stands behind a word that takes an address.
enum Behind<'t> {
    /// No bracket: it isn't that word.
    Nothing,
    /// A function of this name, with its `@`.
    Name(&'t [u8]),
    /// Something else.
    Other,
}

// The name with its `@` with which the bytes begin, where something stands behind it.
fn name_before(bytes: &[u8]) -> Behind<'_> {
    let length = match bytes {
        [b'@', name @ ..] => length_of_name(name),
        _ => None,
    };
    match length {
        Some(length) if length.saturating_add(1) < bytes.len() => {
            Behind::Name(bytes.get(..length.saturating_add(1)).unwrap_or(&[]))
        }
        _ => Behind::Other,
    }
}

// What stands behind the word.
fn behind_word(bytes: &[u8]) -> Behind<'_> {
    match behind_blanks(bytes) {
        [b'(', inside @ ..] => name_before(behind_blanks(inside)),
        [b';' | b'/', ..] => Behind::Other,
        _ => Behind::Nothing,
    }
}

impl TakenAddresses {
    // Adds what stands behind the word.
    fn add(&mut self, bytes: &[u8]) -> Result<(), AllocError> {
        match behind_word(bytes) {
            Behind::Nothing => {}
            Behind::Name(name) => match plain_name(name) {
                Some(plain) => {
                    self.names.number(plain)?;
                }
                None => self.all = true,
            },
            Behind::Other => self.all = true,
        }
        Ok(())
    }

    // Adds what stands behind each of the words that take an address.
    fn add_all(&mut self, text: &[u8]) -> Result<(), AllocError> {
        for at in memmem::find_iter(text, ADDRESS_WORD) {
            let behind = at.saturating_add(ADDRESS_WORD.len());
            self.add(text.get(behind..).unwrap_or(&[]))?;
        }
        Ok(())
    }
}

/// The functions of a text that are kept for what names their blocks: those that stand behind `blockaddress`, and where the
/// text counts uses, or names one in another way, all. Errors: allocation failure. Cost: linear in the text.
pub fn taken_addresses(alloc: Global, text: &[u8]) -> Result<TakenAddresses, AllocError> {
    let mut taken = TakenAddresses {
        all: memmem::find(text, ORDER_WORD).is_some(),
        names: Texts::new(alloc),
    };
    match taken.add_all(text) {
        Ok(()) => Ok(taken),
        Err(refused) => Err(refused),
    }
}
