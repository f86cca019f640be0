//! The words of a text and their tokens.
//!
//! A word's key is seven bits of each byte. One multiplication gives the first of eight slots, and where these are
//! taken an ordered map decides, so no words that an adversary chose take quadratic time.
ghost use Rattle.std.specs.Prelude.{◌<◌, ◌≤◌, length};

use crate::tokens::{Name, Token};
use std::alloc::{AllocError, Global};
use std::collections::BTreeMap;

/// The words of the kinds of operations, by which texts name them.
pub trait Word: Copy + Eq {
    /// The kind that a word names, if it names one.
    fn from_word(word: &[u8]) -> Option<Self>;

    /// The word that names the kind.
    fn word(self) -> &'static str;
}

/// The most bytes of a name.
const MAX_NAME: usize = 64;

/// How many slots are tried for a word.
const TRIES: usize = 8;

/// The most bytes of a word whose key distinguishes it from all others: the key has seven bits of each.
const KEYED: usize = 9;

/// A word of a text, with a key that is the same for the same words.
#[derive(Clone, Copy)]
pub struct WrittenWord<'t> {
    pub word: &'t [u8],
    pub key: usize,
}

impl<'t> WrittenWord<'t> {
    /// The word that a text begins with: its first byte, whatever that is, and the letters, digits and `_`
    /// behind it.
    ///
    /// Asks that the text isn't empty. Cost: the length of the word.
    pub fn first_of(text: &'t [u8]) -> Self
        requires { 0 < length text.now }
        ensures some { 0 < length result.word.now }
        ensures within { length result.word.now ≤ length text.now }
    {
        let mut len: usize = 1;
        let mut key = usize::from(text[0]);
        while len < text.len() && is_name_byte(text[len]) {
            key = key.rotate_left(7) ^ usize::from(text[len]);
            len += 1;
        }
        WrittenWord {
            word: &text[..len],
            key,
        }
    }

    // Whether the other is the same word. Cost: constant for words of a few bytes, and else their length.
    fn is(self, other: WrittenWord<'_>) -> bool {
        self.key == other.key
            && self.word.len() == other.word.len()
            && (self.word.len() <= KEYED || is_same(self.word, other.word))
    }
}

// Whether two long words are the same.
#[inline(never)]
fn is_same(word: &[u8], other: &[u8]) -> bool {
    word == other
}

fn is_name_byte(byte: u8) -> bool {
    is_letter(byte) || byte.is_ascii_digit() || byte == b'_'
}

/// Whether the byte is a letter of ASCII. Cost: constant.
pub fn is_letter(byte: u8) -> bool {
    // A capital letter and its small one differ in this bit.
    (byte | 0x20).wrapping_sub(b'a') < 26
}

/// The place of a word in the table.
#[derive(Clone, Copy)]
enum WordPlace<K> {
    /// It was met and is this token.
    Met(Token<K>),
    /// It wasn't met, and this slot is free.
    Free(usize),
    /// Its slots are taken by other words.
    Crowded,
}

/// A word that was met.
#[derive(Clone, Copy)]
struct WordEntry<'t, K> {
    written: WrittenWord<'t>,
    token: Token<K>,
}

/// The words of a text that were met so far. Names are numbered in the order of their first mention.
///
/// A word is found by a few slots from that of its key on. Where these are taken, as by words that an adversary chose
/// for their keys, it is in an ordered map: no look-up costs more than the logarithm of the number of words.
#[derive(Drop)]
pub struct WordTable<'t, K> {
    /// For each slot the number of an entry and 1 more, or 0.
    slots: Vec<usize>,
    /// How many bits of a hash are left out in the number of a slot.
    spare_bits: u32,
    entries: Vec<WordEntry<'t, K>>,
    others: BTreeMap<&'t [u8], Token<K>>,
    names: usize,
}

impl<'t, K: Word> WordTable<'t, K> {
    /// No words, with room for those of a text of so many bytes. Errors: allocation failure. Cost: the number of
    /// bytes.
    pub fn new(alloc: Global, bytes: usize) -> Result<Self, AllocError> {
        let words = bytes / 8 + 1;
        let spare_bits = words.leading_zeros();
        let mask = usize::MAX.wrapping_shr(spare_bits);
        Ok(WordTable {
            slots: vec![in alloc; 0; mask.saturating_add(1)]?,
            spare_bits,
            entries: Vec::with_capacity(alloc, words)?,
            others: BTreeMap::new(alloc),
            names: 0,
        })
    }

    /// How many names were met. Cost: constant.
    pub fn names(&self) -> usize {
        self.names
    }

    /// The token of a word, or `None` where the word is too long for a name. Errors: allocation failure. Cost: a
    /// few comparisons with words, and a look-up in a tree where these find neither the word nor a free slot.
    pub fn token(&mut self, written: WrittenWord<'t>) -> Result<Option<Token<K>>, AllocError> {
        let first = self.first_slot(written);
        match self.entry_of(first) {
            Some(entry) if entry.written.is(written) => Ok(Some(entry.token)),
            _ => self.token_from(first, written),
        }
    }

    // The slot of the word's key.
    fn first_slot(&self, written: WrittenWord<'t>) -> usize {
        let hash = written.key.wrapping_mul(0x9e37_79b9_7f4a_7c15);
        hash.wrapping_shr(self.spare_bits)
    }

    // The entry in the slot, if there is one.
    fn entry_of(&self, slot: usize) -> Option<WordEntry<'t, K>> {
        let number = self.slots.get(slot)?.checked_sub(1)?;
        self.entries.get(number).copied()
    }

    // The token of a word whose first slot is this one.
    #[inline(never)]
    fn token_from(
        &mut self,
        first: usize,
        written: WrittenWord<'t>,
    ) -> Result<Option<Token<K>>, AllocError> {
        match self.place(first, written) {
            WordPlace::Met(token) => Ok(Some(token)),
            WordPlace::Free(slot) => self.put(slot, written),
            WordPlace::Crowded => self.other(written.word),
        }
    }

    // Where a word is, or may be put, in its slots from the first on.
    fn place(&self, first: usize, written: WrittenWord<'t>) -> WordPlace<K> {
        for slot in first..first.saturating_add(TRIES) {
            match self.slots.get(slot) {
                Some(0) => return WordPlace::Free(slot),
                Some(_) => {}
                None => break,
            }
            match self.entry_of(slot) {
                Some(entry) if entry.written.is(written) => return WordPlace::Met(entry.token),
                _ => {}
            }
        }
        WordPlace::Crowded
    }

    // The token of a word that wasn't met, for which this slot is free.
    fn put(
        &mut self,
        slot: usize,
        written: WrittenWord<'t>,
    ) -> Result<Option<Token<K>>, AllocError> {
        let Some(token) = self.new_token(written.word) else {
            return Ok(None);
        };
        self.entries.push(WordEntry { written, token })?;
        if let Some(number) = self.slots.get_mut(slot) {
            *number = self.entries.len();
        }
        Ok(Some(token))
    }

    // The token of a word that no slot has.
    fn other(&mut self, word: &'t [u8]) -> Result<Option<Token<K>>, AllocError> {
        if let Some(token) = self.others.get(word) {
            return Ok(Some(*token));
        }
        let Some(token) = self.new_token(word) else {
            return Ok(None);
        };
        self.others.insert(word, token)?;
        Ok(Some(token))
    }

    // The token of a word that wasn't met: a kind, or a name with the next number; `None` where the word is
    // too long for a name.
    fn new_token(&mut self, word: &[u8]) -> Option<Token<K>> {
        if let Some(kind) = K::from_word(word) {
            return Some(Token::Kind(kind));
        }
        if word.len() > MAX_NAME {
            return None;
        }
        let number = self.names;
        self.names = number.saturating_add(1);
        Some(Token::Name(Name { number }))
    }
}
