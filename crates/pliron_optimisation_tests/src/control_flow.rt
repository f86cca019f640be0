//! Tests of the simplification of control flow, on texts.
#[cfg(test)]
pub mod calls;
#[cfg(test)]
mod cases;
#[cfg(test)]
mod texts;
