//! Tests of dead code elimination on texts.
#[cfg(test)]
mod boxes;
#[cfg(test)]
mod cases;
#[cfg(test)]
mod hostile;
#[cfg(test)]
mod rounds;
#[cfg(test)]
mod short;
#[cfg(test)]
mod texts;
#[cfg(test)]
mod wide;
