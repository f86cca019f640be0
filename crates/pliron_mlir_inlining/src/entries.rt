//! The entries of property lists and attribute dictionaries.
use pliron_text_mlir_syntax::{Fault, OperationForm, Sheet, TextCursor, is_word, trim_blanks};
use std::alloc::{AllocError, Global};

/// An entry of a list: its name, and what is written behind `=`, nothing where it has only a name.
#[derive(Clone, Copy)]
pub(crate) struct ListEntry<'t> {
    pub name: &'t [u8],
    pub value: &'t [u8],
}

impl ListEntry<'_> {
    /// Whether its name is one of these. Cost: their length.
    pub(crate) fn is_one_of(&self, names: &[&str]) -> bool {
        names.iter().any(|name| name.as_bytes() == self.name)
    }

    /// Whether a word of its value is one of these. Cost: the length of the value times theirs.
    pub(crate) fn has_word_of(&self, words: &[&str]) -> bool {
        self.value
            .split(|byte| !is_word(*byte))
            .any(|part| words.iter().any(|word| word.as_bytes() == part))
    }
}

// The entry that this text writes.
fn entry_of(text: &[u8]) -> ListEntry<'_> {
    let end = text
        .iter()
        .position(|byte| *byte == b'=')
        .unwrap_or(text.len());
    ListEntry {
        name: trim_blanks(text.get(..end).unwrap_or(text)),
        value: trim_blanks(text.get(end.saturating_add(1)..).unwrap_or(&[])),
    }
}

// Adds the entries of the list. Errors: a bracket in it closes nothing or isn't closed; allocation failure.
fn add_entries<'t>(
    alloc: Global,
    list: &'t [u8],
    entries: &mut Vec<ListEntry<'t>>,
) -> Result<(), Fault> {
    let mut cursor = TextCursor::new(list);
    for _ in 0..list.len() {
        let range = cursor.raw(alloc)?;
        entries.push(entry_of(cursor.bytes(range)))?;
        if !cursor.accept(b',') {
            break;
        }
    }
    Ok(())
}

/// The entries of the properties and then of the attributes of a form; `None` where they are no lists, as no text that was
/// read has. Errors: allocation failure. Cost: linear in their texts.
pub(crate) fn entries_of<'s>(
    alloc: Global,
    form: &OperationForm,
    sheet: &'s Sheet,
) -> Result<Option<Vec<ListEntry<'s>>>, AllocError> {
    let mut entries = Vec::new(alloc);
    for number in [form.properties, form.attributes] {
        let list = match number {
            Some(number) => sheet.text(number),
            None => continue,
        };
        match add_entries(alloc, list, &mut entries) {
            Ok(()) => {}
            Err(Fault::NoMemory) => return Err(AllocError),
            Err(_) => return Ok(None),
        }
    }
    Ok(Some(entries))
}
