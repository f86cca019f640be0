//! How texts are written.

/// How texts of a notation are written.
#[derive(Clone, Copy, Debug, PartialEq, Eq)]
pub enum TextFormat {
    /// In words, on one line or more: names that are kept take the place of others word by word.
    Words,
    /// As modules: a module with other names is printed anew.
    Module,
}
