//! What functions say of inlining.
use crate::entries::ListEntry;
use crate::policy::FunctionMarks;
use crate::words::{
    EXACT_LINKAGES, NEVER_INLINED, NEVER_INLINED_IN_LLVM, OWN, PASSED_OTHERWISE, PRIVATE,
};
use pliron_text_mlir_syntax::Texts;
use std::alloc::{AllocError, Global};

// What the linkage is, as `internal` in `#llvm.linkage<internal>`.
fn linkage_said(value: &[u8]) -> &[u8] {
    let rest = value
        .strip_prefix(b"#llvm.linkage<".as_slice())
        .unwrap_or(value);
    rest.strip_suffix(b">".as_slice()).unwrap_or(rest)
}

fn is_word_of(word: &[u8], words: &[&str]) -> bool {
    words.iter().any(|it| it.as_bytes() == word)
}

// Whether the entry forbids that the function is inlined.
fn forbids_inlining(entry: &ListEntry) -> bool {
    match entry.name {
        b"linkage" => !is_word_of(linkage_said(entry.value), &EXACT_LINKAGES),
        b"arg_attrs" => entry.has_word_of(&PASSED_OTHERWISE),
        b"passthrough" => entry.has_word_of(&NEVER_INLINED_IN_LLVM),
        _ => entry.is_one_of(&NEVER_INLINED),
    }
}

// Whether the entry says that nobody else names the function.
fn says_private(entry: &ListEntry) -> bool {
    match entry.name {
        b"linkage" => is_word_of(linkage_said(entry.value), &PRIVATE),
        b"sym_visibility" => entry.has_word_of(&PRIVATE),
        _ => false,
    }
}

// The entries that a caller and its callee must share, as one text.
fn shared_text(alloc: Global, entries: &[ListEntry]) -> Result<Vec<u8>, AllocError> {
    let mut text = Vec::new(alloc);
    for entry in entries {
        if !entry.is_one_of(&OWN) {
            text.extend_from_slice(entry.name)?;
            text.push(b'=')?;
            text.extend_from_slice(entry.value)?;
            text.push(b',')?;
        }
    }
    Ok(text)
}

// Whether one of the entries has this name.
fn has_entry(entries: &[ListEntry], name: &[u8]) -> bool {
    entries.iter().any(|entry| entry.name == name)
}

/// What the entries of a function say, in a module where a body that isn't local may be replaced when the program is loaded, or
/// may not. What it must share with its callers gets a number among `shared`. Errors: allocation failure. Cost: linear in its
/// entries.
pub(crate) fn function_facts(
    alloc: Global,
    entries: &[ListEntry],
    may_be_replaced: bool,
    shared: &mut Texts,
) -> Result<FunctionMarks, AllocError> {
    let text = shared_text(alloc, entries)?;
    let is_private = entries.iter().any(says_private);
    let is_kept = is_private || has_entry(entries, b"dso_local") || !may_be_replaced;
    Ok(FunctionMarks {
        shared: shared.number(&text)?,
        is_inlined: is_kept && !entries.iter().any(forbids_inlining),
        is_private,
        is_asked_for: has_entry(entries, b"always_inline"),
    })
}
