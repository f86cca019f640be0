//! What may be copied from one function to another.
use crate::entries::ListEntry;
use crate::words::{NEVER_COPIED, SEES_FRAME};
use pliron_text_mlir_syntax::OperationForm;

// Whether an operation with this entry may be copied.
fn allows_copy(entry: &ListEntry) -> bool {
    match entry.name {
        b"TailCallKind" => entry.value == b"#llvm.tailcallkind<none>".as_slice(),
        b"callee" => !SEES_FRAME.iter().any(|name| name.as_bytes() == entry.value),
        _ => !entry.is_one_of(&NEVER_COPIED),
    }
}

/// Whether an operation of the form, with these entries, may be copied to another function: it has no location, which would
/// be one of the other function, no mark that its function's frame stays, and nothing that holds for one run of its function.
/// Cost: linear in the entries.
pub(crate) fn may_be_copied(form: &OperationForm, entries: &[ListEntry]) -> bool {
    form.location.is_none() && entries.iter().all(allows_copy)
}
