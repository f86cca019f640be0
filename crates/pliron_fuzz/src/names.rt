//! Names of values.

use std::fmt::{self, Display, Formatter, Write};

/// A value of a function: an argument or a result of a block of a region.
#[derive(Clone, Copy, Debug, PartialEq, Eq)]
pub enum RandomName {
    Argument(usize, usize, usize),
    Result(usize, usize, usize),
}

impl Display for RandomName {
    fn fmt<W: Write>(&self, f: &mut Formatter<W>) -> fmt::Result {
        match self {
            RandomName::Argument(region, block, place) => write!(f, "p{region}x{block}x{place}"),
            RandomName::Result(region, block, place) => write!(f, "v{region}x{block}x{place}"),
        }
    }
}
