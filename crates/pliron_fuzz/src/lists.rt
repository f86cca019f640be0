//! Lists of passes, as words.

use crate::dice::Dice;
use std::alloc::{AllocError, Global};

static PASSES: [&str; 3] = ["sccp", "dce", "simplify-cfg"];

/// A list of one to three passes, sometimes again and again, sometimes on what is directly inside.
/// Errors: allocation failure. Cost: constant.
pub fn list(alloc: Global, dice: &mut Dice) -> Result<String, AllocError> {
    let mut word = String::new(alloc);
    if dice.once_in(4) {
        let runs = dice.below(4).saturating_add(1);
        write!(word, "repeat:{runs}:").map_err(|_| AllocError)?;
    }
    if dice.once_in(4) {
        word.push_str("nested:")?;
    }
    let more = dice.below(3);
    word.push_str(dice.one_of(&PASSES).unwrap_or("sccp"))?;
    for _ in 0..more {
        word.push_str(",")?;
        word.push_str(dice.one_of(&PASSES).unwrap_or("dce"))?;
    }
    Ok(word)
}
