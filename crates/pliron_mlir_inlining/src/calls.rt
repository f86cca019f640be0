//! What calls say of inlining.
use crate::entries::ListEntry;
use crate::words::{OF_CALLS, PASSED_OTHERWISE};

// Whether a call with this entry may be inlined.
fn allows_inlining(entry: &ListEntry) -> bool {
    match entry.name {
        b"TailCallKind" => entry.value == b"#llvm.tailcallkind<none>".as_slice(),
        b"op_bundle_sizes" => entry.value == b"array<i32>".as_slice(),
        b"arg_attrs" => !entry.has_word_of(&PASSED_OTHERWISE),
        _ => entry.is_one_of(&OF_CALLS),
    }
}

/// Whether a call with these entries may be inlined: it passes values, as any call does, and nothing else is known of it.
/// Cost: linear in the entries.
pub(crate) fn is_plain_call(entries: &[ListEntry]) -> bool {
    entries.iter().all(allows_inlining)
}
