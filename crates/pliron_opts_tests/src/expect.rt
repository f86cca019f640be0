//! Comparisons, proved once for all tests.
use pliron_evaluator::evaluator::Sight;
use pliron_text::{Grammar, find_fault};
use std::alloc::Global;
use std::process::Abort;

/// The texts are the same.
pub fn expect_text(rt: &impl Abort, got: &str, want: &str, name: &str) {
    assert_eq!(rt; got, want, "{name}");
}

/// The bytes are the same.
pub fn expect_bytes(rt: &impl Abort, got: &[u8], want: &[u8], name: &str) {
    assert_eq!(rt; got, want, "{name}");
}

/// The runs show the same.
pub fn expect_sight(rt: &impl Abort, got: &Sight, want: &Sight, name: &str) {
    assert!(rt; *got == *want, "{name}: {got:?}");
}

/// The text is outside the notation: after how many bytes and in how many it leaves that, and what was expected there.
pub fn expect_fault<K: Grammar>(rt: &impl Abort, alloc: Global, text: &str, want: &str) {
    let fault = find_fault::<K>(alloc, text.as_bytes())
        .expect(rt, "memory")
        .expect(rt, "a fault");
    let found = format!(in alloc;
        "{} {} {}",
        fault.span.start, fault.span.len, fault.expected
    );
    let found = found.expect(rt, "memory");
    expect_text(rt, found.as_str(), want, text);
}
