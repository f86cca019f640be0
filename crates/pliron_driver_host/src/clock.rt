//! The clock of a process.
use pliron_driver_instrument::Progress;
use std::io;
use std::time::{Clock, Duration};

/// The clock of the process.
#[derive(Clone, Copy, Drop)]
pub struct ProcessClock<'r> {
    pub rt: &'r HostRuntime,
}

impl Clock for ProcessClock<'_> {
    fn monotonic(&self) -> io::Result<Duration> {
        self.rt.monotonic()
    }

    fn since_1970(&self) -> io::Result<Duration> {
        self.rt.since_1970()
    }
}

impl Progress for ProcessClock<'_> {
    fn pass_ended(&self, _: usize, _: &str) {}
}
