//! Tests of the operations of MLIR, of the optimisations on them, of texts in MLIR's generic form, of passes on these, and
//! of the calls for other languages. It has no function of its own.
#![tactic(auto)]

#[cfg(test)]
mod broken;
#[cfg(test)]
mod buffers;
#[cfg(test)]
mod calls;
#[cfg(test)]
mod combined;
#[cfg(test)]
mod edges;
#[cfg(test)]
mod erased;
#[cfg(test)]
mod function_tables;
#[cfg(test)]
mod functions;
#[cfg(test)]
mod identities;
#[cfg(test)]
mod inlined;
#[cfg(test)]
mod integers;
#[cfg(test)]
mod lines;
#[cfg(test)]
mod modules;
#[cfg(test)]
mod named;
#[cfg(test)]
mod names;
#[cfg(test)]
mod outcomes;
#[cfg(test)]
mod printed;
#[cfg(test)]
mod properties;
#[cfg(test)]
mod rotated;
#[cfg(test)]
mod rows;
#[cfg(test)]
mod streams;
#[cfg(test)]
mod traces;
