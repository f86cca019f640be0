//! Texts, and what the rules of `Arithmetic` leave of them.
#![tactic(auto)]

#[cfg(test)]
mod combined;
