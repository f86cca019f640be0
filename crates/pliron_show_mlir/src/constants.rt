//! Constants as people read them.
use pliron_core::Head;
use pliron_dialect_mlir::integer_of;
use pliron_text_mlir_printer::{datum_of, form_of_datum, form_of_head, write_signed, write_type};
use pliron_text_mlir_syntax::{OperationForm, Sheet};
use std::alloc::{AllocError, Global};

// The name in quotes that the text of an operation begins with, without them.
fn name_in(text: &[u8]) -> Option<&str> {
    let text = text.strip_prefix(b"\"".as_slice())?;
    let end = text.iter().position(|byte| *byte == b'"')?;
    std::str::from_utf8(text.get(..end)?).ok()
}

/// The name of an operation with this head; none where folding made it. Cost: linear in the name.
pub fn name_of_head<'s>(head: &Head, sheet: &'s Sheet) -> Option<&'s str> {
    name_in(sheet.text(form_of_head(head, sheet)?.name))
}

/// Adds an integer of this width. Errors: allocation failure. Cost: constant.
pub fn push_integer(out: &mut Vec<u8>, width: u32, bits: u64) -> Result<(), AllocError> {
    write_signed(width, bits, out)
}

/// Adds the integer with its type; a truth needs none. Errors: allocation failure. Cost: constant.
pub fn push_typed(out: &mut Vec<u8>, width: u32, bits: u64) -> Result<(), AllocError> {
    write_signed(width, bits, out)?;
    if width != 1 {
        out.extend_from_slice(b" : ")?;
        write_type(width, out)?;
    }
    Ok(())
}

/// Adds a constant that is no integer, as its text has it: its value, or else its name with its properties. Errors:
/// allocation failure. Cost: linear in the text.
pub fn push_form(out: &mut Vec<u8>, form: OperationForm, sheet: &Sheet) -> Result<(), AllocError> {
    let listed = match form.properties.or(form.attributes) {
        Some(number) => sheet.text(number),
        None => &[],
    };
    if let Some(value) = listed.strip_prefix(b"value = ".as_slice()) {
        return out.extend_from_slice(value);
    }
    out.extend_from_slice(name_in(sheet.text(form.name)).unwrap_or("").as_bytes())?;
    if !listed.is_empty() {
        out.extend_from_slice(b" ")?;
        out.extend_from_slice(listed)?;
    }
    Ok(())
}

/// The constant that an operation with this head makes, as people read it: an integer with its type, or what the text
/// says; none of an operation that makes none. Errors: allocation failure. Cost: linear in what is written.
pub fn constant_of(
    alloc: Global,
    head: &Head,
    sheet: &Sheet,
) -> Result<Option<String>, AllocError> {
    let Some(datum) = datum_of(head) else {
        return Ok(None);
    };
    let mut out = Vec::new(alloc);
    match (integer_of(datum), form_of_datum(datum, sheet)) {
        (Some((width, bits)), _) => push_typed(&mut out, width, bits)?,
        (None, Some(form)) => push_form(&mut out, form, sheet)?,
        (None, None) => return Ok(None),
    }
    Ok(Some(String::from_utf8_lossy(alloc, &out)?))
}
