//! Integers of a width from 1 to 64 bits as LLVM computes with them: each operation answers none where LLVM's answer
//! would be poison or undefined.
//!
//! A number of a width is a `u64` below two to the width. It is read as itself, or as signed in two's complement.
#![tactic(auto)]

mod casts;
mod division;
mod flags;
mod integers;
pub mod laws;
mod logic;
mod operators;
mod order;
mod readings;
mod shifts;
mod wrapping;

pub use casts::{sign_extend, truncate, zero_extend};
pub use division::{
    signed_quotient, signed_quotient_down, signed_quotient_up, signed_remainder, unsigned_quotient,
    unsigned_quotient_up, unsigned_remainder,
};
pub use flags::Flags;
pub use logic::{and, or, xor};
pub use operators::{BinaryOperator, Cast, Predicate, compare, compute, convert};
pub use order::{signed_maximum, signed_minimum, unsigned_maximum, unsigned_minimum};
pub use readings::{bits, is_signed, signed_value, size};
pub use shifts::{arithmetic_shift_right, logical_shift_right, shift_left};
pub use wrapping::{difference, product, sum};
