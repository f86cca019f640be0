//! The source ranges of the operations of a text, each on one line.
ghost use Rattle.std.specs.Prelude.{◌≡◌, map, IfOk};
ghost use Rattle.pliron_show_places.specs.Places.{beginning_of};

use crate::layout::is_blank;
use crate::text_parts::{TextPart, TextParts};
use pliron_core::{Operation, Ptr};
use std::alloc::{AllocError, Global};

// The part as far as it is on its first line.
fn on_first_line(text: &[u8], part: TextPart) -> TextPart
    ensures { beginning_of result ≡ beginning_of part }
{
    let bytes = part.of(text);
    let end = bytes
        .iter()
        .position(|byte| *byte == b'\n')
        .unwrap_or(bytes.len());
    let len = match bytes[..end].iter().rposition(|byte| !is_blank(*byte)) {
        Some(last) => last + 1,
        None => 0,
    };
    TextPart { len, ..part }
}

/// The source range of each operation of a text with these parts, cut at the end of its first line. Operations come in
/// parse order, as reading makes them.
///
/// Errors: allocation failure. Cost: linear in the text.
pub fn operation_places(
    alloc: Global,
    text: &[u8],
    parts: &TextParts,
) -> Result<Vec<TextPart>, AllocError>
    ensures { IfOk result (λ places. map beginning_of places.items ≡ map beginning_of parts.now.operations.items) }
{
    let mut places = Vec::new(alloc);
    for part in &parts.operations {
        places.push(on_first_line(text, *part))?;
    }
    Ok(places)
}

/// Where the operation is in a text. `places` are those of the text's operations, and `root` is their root; `None` for
/// an operation that wasn't read from the text. Cost: constant.
pub fn place_of(places: &[TextPart], root: Ptr<Operation>, op: Ptr<Operation>) -> Option<TextPart> {
    let number = op.key().checked_sub(root.key())?;
    places.get(usize::try_from(number).ok()?).copied()
}
