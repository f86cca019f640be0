//! Texts of modules.

/// A text, and what users call it.
#[derive(Clone, Copy)]
pub struct ModuleSource<'s> {
    pub name: &'s str,
    pub text: &'s [u8],
}
