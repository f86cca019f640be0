//! Texts over several lines.
ghost use Rattle.std.specs.Prelude.{◌≡◌, ◌++◌, ◌∷◌, [], true, false, IfOk, OnOk};
ghost use Rattle.pliron_show_places.specs.Laid.{laid_words, LaysBlank, LaysByte};
ghost use Rattle.pliron_show_places.specs.Layout.{after_blank, is_notation_mark, words_of};

use std::alloc::{AllocError, Global};

/// A text that is laid out so far.
#[derive(Drop)]
struct Layout {
    text: Vec<u8>,
    /// How many braces are open.
    depth: usize,
    /// Whether what comes next begins a line.
    breaks: bool,
    /// Whether a blank was read since the last byte that isn't one.
    parts: bool,
}

/// The text with each block and each operation on a line of its own, indented by the braces around it. It has the same
/// words in the same order, so only blanks change beside other blanks, braces, semicolons and colons.
///
/// Errors: allocation failure. Cost: linear in the text, and its depth for each line.
#[tactic(auto, using(crate::proofs::LayoutLemmas::none_read, crate::proofs::LayoutLemmas::laid_more, crate::proofs::LayoutLemmas::all_laid))]
pub fn pretty(alloc: Global, text: &[u8]) -> Result<Vec<u8>, AllocError>
    ensures { IfOk result (λ laid. words_of laid.items ≡ words_of text.now) }
{
    let mut layout = Layout {
        text: Vec::new(alloc),
        depth: 0,
        breaks: false,
        parts: false,
    };
    for i in 0..text.len() {
        layout.take(text[i], &text[i..])?;
    }
    Ok(layout.text)
}

/// Whether the byte is a blank. Cost: constant.
pub fn is_blank(byte: u8) -> bool {
    byte == b' ' || byte == b'\n' || byte == b'\t' || byte == b'\r'
}

/// Whether the text begins with the head of a block: a name and an opening bracket, with or without blanks
/// between them. Cost: linear in that name and these blanks.
pub fn begins_block(text: &[u8]) -> bool {
    let mut is_behind_name = false;
    for byte in text {
        if is_blank(*byte) {
            is_behind_name = true;
        } else if *byte == b'(' {
            return true;
        } else if is_behind_name || (!byte.is_ascii_alphanumeric() && *byte != b'_') {
            return false;
        }
    }
    false
}

impl Layout {
    // Takes in the next byte, with which the rest of the text begins.
    #[tactic(auto, using(crate::proofs::LayoutLemmas::blank_taken, crate::proofs::LayoutLemmas::byte_written, crate::proofs::LayoutLemmas::brace_written))]
    fn take(&mut self, byte: u8, rest: &[u8]) -> Result<(), AllocError>
        ensures { OnOk result (LaysByte self.old.text.items self.new.text.items self.old.parts self.old.breaks
            self.new.parts self.new.breaks byte) }
    {
        match byte {
            b' ' | b'\n' | b'\t' | b'\r' => self.parts = true,
            b'}' => {
                self.depth = self.depth.saturating_sub(1);
                self.line(self.depth)?;
                self.put(byte)?;
            }
            _ => {
                self.part(rest)?;
                self.put(byte)?;
            }
        }
        Ok(())
    }

    // Writes what separates the rest of the text from what is laid out so far.
    #[tactic(auto, using(crate::proofs::LayoutLemmas::line_parted, crate::proofs::LayoutLemmas::blank_written, crate::proofs::LayoutLemmas::none_written, crate::proofs::LayoutLemmas::none_parted))]
    fn part(&mut self, rest: &[u8]) -> Result<(), AllocError>
        ensures { OnOk result (LaysBlank self.old.text.items self.new.text.items self.old.parts self.old.breaks) }
    {
        if self.breaks {
            let depth = if begins_block(rest) {
                self.depth.saturating_sub(1)
            } else {
                self.depth
            };
            self.line(depth)
        } else if !self.parts {
            Ok(())
        } else if self.text.is_empty() {
            Ok(())
        } else {
            self.text.push(b' ')?;
            Ok(())
        }
    }

    // Ends the line, unless none is begun.
    #[tactic(auto, using(crate::proofs::LayoutLemmas::line_broken, crate::proofs::LayoutLemmas::nothing_parted))]
    fn end_line(&mut self) -> Result<(), AllocError>
        ensures { OnOk result (laid_words self.new.text.items ≡ after_blank (laid_words self.old.text.items)) }
    {
        if self.text.is_empty() {
            return Ok(());
        }
        self.text.push(b'\n')?;
        Ok(())
    }

    // Begins a line that is indented so deep.
    #[tactic(auto, using(crate::proofs::LayoutLemmas::indented))]
    fn line(&mut self, depth: usize) -> Result<(), AllocError>
        ensures { OnOk result (laid_words self.new.text.items ≡ after_blank (laid_words self.old.text.items)) }
    {
        self.end_line()?;
        for _ in 0..depth {
            self.text.extend_from_slice(b"  ")?;
        }
        Ok(())
    }

    // Writes the byte, which is no blank, and says what follows it.
    fn put(&mut self, byte: u8) -> Result<(), AllocError>
        ensures text { OnOk result (self.new.text.items ≡ self.old.text.items ++ byte ∷ []) }
        ensures parts { OnOk result (self.new.parts ≡ false) }
        ensures breaks { OnOk result (self.new.breaks ≡ true → is_notation_mark byte ≡ true) }
    {
        self.text.push(byte)?;
        self.parts = false;
        self.breaks = byte == b'{' || byte == b';' || byte == b':';
        if byte == b'{' {
            self.depth = self.depth.saturating_add(1);
        }
        Ok(())
    }
}
