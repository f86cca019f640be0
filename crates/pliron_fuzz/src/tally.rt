//! How many texts there were, and what came of them.
use crate::Kind;
use crate::verdict::Verdict;
use std::fmt::{self, Display, Formatter, Write};

/// How many texts there were of each kind, and what came of them. It is printed as a line.
#[derive(Clone, Copy, Debug, Drop, PartialEq, Eq)]
pub struct Tally {
    pub defined: u64,
    pub hostile: u64,
    pub mangled: u64,
    /// So many were outside the notation.
    pub unreadable: u64,
    /// So many were refused.
    pub refused: u64,
    /// Of so many the answer shows a fault.
    pub found: u64,
}

impl Tally {
    /// No text yet. Cost: constant.
    pub fn new() -> Self {
        Tally {
            defined: 0,
            hostile: 0,
            mangled: 0,
            unreadable: 0,
            refused: 0,
            found: 0,
        }
    }

    /// One text more, of this kind. Cost: constant.
    pub fn add(&mut self, kind: Kind, verdict: Verdict) {
        let of_kind = match kind {
            Kind::Defined => &mut self.defined,
            Kind::Hostile => &mut self.hostile,
            Kind::Mangled => &mut self.mangled,
        };
        *of_kind = of_kind.saturating_add(1);
        match verdict {
            Verdict::Unreadable => self.unreadable = self.unreadable.saturating_add(1),
            Verdict::Refused => self.refused = self.refused.saturating_add(1),
            Verdict::Found(_) => self.found = self.found.saturating_add(1),
            Verdict::Kept => {}
        }
    }
}

impl Display for Tally {
    fn fmt<W: Write>(&self, f: &mut Formatter<W>) -> fmt::Result {
        write!(
            f,
            "{} well defined, {} hostile, {} mangled; {} unreadable, {} refused; {} with a fault",
            self.defined, self.hostile, self.mangled, self.unreadable, self.refused, self.found
        )
    }
}
