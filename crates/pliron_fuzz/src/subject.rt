//! What one seed makes: a text and a list of passes.

use crate::dice::Dice;
use crate::lists::list;
use crate::writer::function;
use std::alloc::{AllocError, Global};

/// What is known of a text.
#[derive(Clone, Copy, Debug, PartialEq, Eq)]
pub enum Kind {
    /// Its functions are fit to run.
    Defined,
    /// It is in the notation; uses and edges may be as they like.
    Hostile,
    /// A malformed text: a few characters were changed.
    Mangled,
}

/// A text, and passes to run on it.
#[derive(Drop)]
pub struct FuzzSubject {
    pub kind: Kind,
    /// The word that names the passes.
    pub list: String,
    pub text: String,
}

/// Characters of the notation.
static CHARACTERS: [char; 20] = [
    '{', '}', '(', ')', ':', ';', ',', '=', ' ', '-', '0', '1', 'b', 'v', 'p', 'x', 'r', '_', '"',
    '\n',
];

impl FuzzSubject {
    /// What this seed makes, always the same. Errors: allocation failure. Cost: that of the texts of up to three
    /// functions.
    pub fn new(alloc: Global, seed: u64) -> Result<Self, AllocError> {
        let mut dice = Dice::new(seed);
        let kind = match dice.below(16) {
            0..=7 => Kind::Defined,
            8..=14 => Kind::Hostile,
            _ => Kind::Mangled,
        };
        let list = list(alloc, &mut dice)?;
        let (mut dice, text) = whole(alloc, dice, kind)?;
        let text = match kind {
            Kind::Defined | Kind::Hostile => text,
            Kind::Mangled => mangle(alloc, &mut dice, &text)?,
        };
        Ok(FuzzSubject { kind, list, text })
    }
}

// A function, or a module of a few.
fn whole(alloc: Global, mut dice: Dice, kind: Kind) -> Result<(Dice, String), AllocError> {
    let is_hostile = kind != Kind::Defined;
    if !dice.once_in(6) {
        return function(alloc, dice, is_hostile);
    }
    let mut text = String::new(alloc);
    text.push_str("mod { b0(): ")?;
    let more = dice.below(3);
    let (mut dice, first) = function(alloc, dice, is_hostile)?;
    text.push_str(&first)?;
    let mut block: u64 = 0;
    for _ in 0..more {
        text.push_str("; ")?;
        if dice.once_in(4) {
            block = block.saturating_add(1);
            write!(text, "b{block}(): ").map_err(|_| AllocError)?;
        }
        let (rest, next) = function(alloc, dice, is_hostile)?;
        text.push_str(&next)?;
        dice = rest;
    }
    text.push_str(" }")?;
    Ok((dice, text))
}

// The text with up to three characters removed, doubled or replaced.
fn mangle(alloc: Global, dice: &mut Dice, text: &str) -> Result<String, AllocError> {
    let rare = (text.len() as u64).saturating_add(1) / 3;
    let mut result = String::new(alloc);
    for character in text.chars() {
        if !dice.once_in(rare) {
            result.push(character)?;
            continue;
        }
        match dice.below(3) {
            0 => {}
            1 => {
                result.push(character)?;
                result.push(character)?;
            }
            _ => result.push(dice.one_of(&CHARACTERS).unwrap_or(' '))?,
        }
    }
    Ok(result)
}
