//! Tests of the dialect `Arithmetic`, on texts. It has no function of its own.
#[cfg(test)]
mod folds;
#[cfg(test)]
mod program;
#[cfg(test)]
mod runs;
#[cfg(test)]
mod texts;
