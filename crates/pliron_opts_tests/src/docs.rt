//! The code of the pages for users: each block of code of docs/ and of the README is here, or in another module or crate
//! of tests, word for word.
#[cfg(test)]
mod erasing;
#[cfg(test)]
mod graphs;
#[cfg(test)]
mod inner;
#[cfg(test)]
mod passes;
#[cfg(test)]
mod start;
#[cfg(test)]
mod walking;
