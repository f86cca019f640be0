//! Tests of common subexpression elimination on texts.
#[cfg(test)]
mod cases;
#[cfg(test)]
mod passes;
#[cfg(test)]
mod random;
#[cfg(test)]
mod texts;
