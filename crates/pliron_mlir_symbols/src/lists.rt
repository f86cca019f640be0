//! The entries of property lists and attribute dictionaries.
use pliron_text_mlir_syntax::{Fault, OperationForm, Sheet, TextCursor, trim_blanks};
use std::alloc::{AllocError, Global};

/// An entry of a list: its name, and what is written behind `=`, nothing where it has only a name.
#[derive(Clone, Copy)]
pub(crate) struct NamedValue<'t> {
    pub name: &'t [u8],
    pub value: &'t [u8],
}

// The entry that this text writes.
fn value_of(text: &[u8]) -> NamedValue<'_> {
    let end = text
        .iter()
        .position(|byte| *byte == b'=')
        .unwrap_or(text.len());
    NamedValue {
        name: trim_blanks(text.get(..end).unwrap_or(text)),
        value: trim_blanks(text.get(end.saturating_add(1)..).unwrap_or(&[])),
    }
}

// Adds the entries of the list. Errors: a bracket in it closes nothing or isn't closed; allocation failure.
fn add_values<'t>(
    alloc: Global,
    list: &'t [u8],
    values: &mut Vec<NamedValue<'t>>,
) -> Result<(), Fault> {
    let mut cursor = TextCursor::new(list);
    for _ in 0..list.len() {
        let range = cursor.raw(alloc)?;
        values.push(value_of(cursor.bytes(range)))?;
        if !cursor.accept(b',') {
            break;
        }
    }
    Ok(())
}

/// The entries of the properties and then of the attributes of a form; `None` where they are no lists, as no text that was
/// read has. Errors: allocation failure. Cost: linear in their texts.
pub(crate) fn values_of<'s>(
    alloc: Global,
    form: &OperationForm,
    sheet: &'s Sheet,
) -> Result<Option<Vec<NamedValue<'s>>>, AllocError> {
    let mut values = Vec::new(alloc);
    for number in [form.properties, form.attributes] {
        let list = match number {
            Some(number) => sheet.text(number),
            None => continue,
        };
        match add_values(alloc, list, &mut values) {
            Ok(()) => {}
            Err(Fault::NoMemory) => return Err(AllocError),
            Err(_) => return Ok(None),
        }
    }
    Ok(Some(values))
}
