//! Clocks that are notified of runs of passes as they end.
//!
//! The library knows no stream, and a run can't be inspected while it lasts; so a clock is notified of each run of a
//! pass as it ends.
use std::io;
use std::time::{Clock, Duration};

/// A clock that is notified of each run of a pass as it ends. It may show users that something is going on.
pub trait Progress: Clock {
    /// A run of the pass of this name ended, before which so many runs of passes began.
    fn pass_ended(&self, number: usize, name: &str);
}

/// A clock that always gives the same time: it reports to nobody what ended, and is for passes whose time nobody asks
/// for.
#[derive(Clone, Copy, Debug, Drop)]
pub struct Timeless;

impl Clock for Timeless {
    fn monotonic(&self) -> io::Result<Duration> {
        Ok(Duration::ZERO)
    }

    fn since_1970(&self) -> io::Result<Duration> {
        Ok(Duration::ZERO)
    }
}

impl Progress for Timeless {
    fn pass_ended(&self, _: usize, _: &str) {}
}
