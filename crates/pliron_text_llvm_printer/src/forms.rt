//! The parts of the form of a phi.
use pliron_text_llvm_syntax::is_mark;

// Where the first mark is.
fn first_mark(form: &[u8]) -> Option<usize> {
    form.iter().position(|byte| is_mark(*byte))
}

// Where the last one of these bytes is.
fn last_of(bytes: &[u8], sought: u8) -> Option<usize> {
    let mut found = None;
    for i in 0..bytes.len() {
        if bytes[i] == sought {
            found = Some(i);
        }
    }
    found
}

// Where the last mark is.
fn last_mark(form: &[u8]) -> Option<usize> {
    let mut found = None;
    for i in 0..form.len() {
        if is_mark(form[i]) {
            found = Some(i);
        }
    }
    found
}

/// What stands before the entries of a phi with this form. Cost: linear in it.
pub fn before_entries(form: &[u8]) -> Option<&[u8]> {
    let mark = first_mark(form)?;
    let before = form.get(..mark)?;
    before.get(..last_of(before, b'[')?)
}

/// What stands behind the entries of a phi with this form. Cost: linear in it.
pub fn behind_entries(form: &[u8]) -> Option<&[u8]> {
    let behind = form.get(last_mark(form)?..)?;
    let bracket = behind.iter().position(|byte| *byte == b']')?;
    behind.get(bracket.saturating_add(1)..)
}
