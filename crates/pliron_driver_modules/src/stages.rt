//! What stages before passes did to a module.
use std::alloc::AllocError;

/// How much stages before the passes did to a module.
#[derive(Clone, Copy, Debug, Default, Drop, PartialEq, Eq)]
pub struct StageCounts {
    /// Calls that were inlined.
    pub inlined: usize,
    /// Loops that were rotated.
    pub rotated: usize,
    /// Functions that were erased, since nothing named them.
    pub erased: usize,
}

impl StageCounts {
    /// Whether a stage did something. Cost: constant.
    pub(crate) fn is_changed(&self) -> bool {
        self.inlined > 0 || self.rotated > 0 || self.erased > 0
    }
}

// Writes how often a stage did something, if it did.
fn write_count(report: &mut String, name: &str, count: usize) -> Result<(), AllocError> {
    if count == 0 {
        return Ok(());
    }
    write!(report, "{name}: {count}\n")
}

/// Writes a line for each stage that did something. Errors: allocation failure. Cost: constant.
pub(crate) fn write_stages(report: &mut String, stages: &StageCounts) -> Result<(), AllocError> {
    write_count(report, "inlined calls", stages.inlined)?;
    write_count(report, "rotated loops", stages.rotated)?;
    write_count(report, "erased functions", stages.erased)
}
