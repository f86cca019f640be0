//! Comparisons, proved once for all tests.
use std::process::Abort;

/// The texts are the same.
pub fn expect_text(rt: &impl Abort, got: &str, want: &str, name: &str) {
    assert_eq!(rt; got, want, "{name}");
}
