//! Lines and columns of a text: where people find a byte of it.
#![tactic(auto)]

ghost use Rattle.std.specs.Prelude.{◌≡◌, length, take, take_while, reverse, not};
ghost use Rattle.pliron_text_positions.specs.LineAndColumn.{is_line_end, line_behind, column_behind};

/// The line and column of a byte, counted from 1, columns by bytes.
#[derive(Clone, Copy, Debug, PartialEq, Eq)]
pub struct LineAndColumn {
    pub line: usize,
    pub column: usize,
}

// How many bytes are behind the last end of a line.
fn last_line_len(text: &[u8]) -> usize
    ensures { result ≡ length (take_while (λ byte. not (is_line_end byte)) (reverse text.now)) }
{
    let mut len = 0;
    for byte in text {
        len = if *byte == b'\n' { 0 } else { len + 1 };
    }
    len
}

/// The line and the column of the byte behind so many. Cost: linear in these.
pub fn position_of(text: &[u8], start: usize) -> LineAndColumn
    ensures line { result.line ≡ line_behind (take start text.now) }
    ensures column { result.column ≡ column_behind (take start text.now) }
{
    let before = &text[..start.min(text.len())];
    let line_ends = before.iter().filter(|byte| **byte == b'\n').count();
    LineAndColumn {
        line: 1 + line_ends,
        column: 1 + last_line_len(before),
    }
}
