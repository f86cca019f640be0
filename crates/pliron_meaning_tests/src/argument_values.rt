//! Tests of arguments that are one value, on texts. It has no function of its own.
#[cfg(test)]
mod cases;
#[cfg(test)]
pub mod texts;
