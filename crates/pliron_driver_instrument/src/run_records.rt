//! What is noted of the runs of a pass.
use crate::comparison::ContentsComparison;
use pliron_core::{IRStatus, Operation, Ptr};
use pliron_laws::OptError;
use std::alloc::{AllocError, Global};

/// The runs of a pass on one operation after another, each once.
#[derive(Clone, Copy, Debug, Drop)]
pub struct RoundRecord {
    /// How many runs there were, and how many of these changed something.
    pub runs: usize,
    pub changed: usize,
    /// What was inside the operations before and after, and what was rewritten.
    pub compared: ContentsComparison,
    /// How many nanoseconds they took.
    pub nanos: u128,
}

/// One run of a pass of which there is something to report.
#[derive(Drop)]
pub struct RunNote {
    /// How many runs of passes came before it.
    pub number: usize,
    pub status: IRStatus,
    /// What verifying found after it.
    pub fault: Option<OptError>,
    /// The operation after it, printed, where the options ask for it.
    pub printed: Option<String>,
}

/// What was noted of a pass.
#[derive(Drop)]
pub struct InstrumentationRecord {
    /// The operation on which it ran first.
    first: Option<Ptr<Operation>>,
    /// A row for each round over its operations.
    pub rows: Vec<RoundRecord>,
    /// Its runs in order.
    pub notes: Vec<RunNote>,
    /// Why its last run failed, where it did.
    pub refused: Option<OptError>,
    /// Whether something is missing here, since memory was refused.
    pub is_short: bool,
}

/// One run of a pass: the operation, what was inside it before and after, what was rewritten, and how long it took.
#[derive(Clone, Copy)]
pub struct RunMeasure {
    pub op: Ptr<Operation>,
    pub status: IRStatus,
    pub compared: ContentsComparison,
    pub nanos: u128,
}

impl RoundRecord {
    // Adds a run.
    fn add(&mut self, run: &RunMeasure) {
        self.runs = self.runs.saturating_add(1);
        if run.status == IRStatus::Changed {
            self.changed = self.changed.saturating_add(1);
        }
        self.compared.add(&run.compared);
        self.nanos = self.nanos.saturating_add(run.nanos);
    }
}

impl InstrumentationRecord {
    /// Nothing was noted. Cost: constant.
    pub(crate) fn new(alloc: Global) -> Self {
        InstrumentationRecord {
            first: None,
            rows: Vec::new(alloc),
            notes: Vec::new(alloc),
            refused: None,
            is_short: false,
        }
    }

    /// Adds a run: to the last row, or to a new one where the pass begins with its first operation again. Errors:
    /// allocation failure.
    pub(crate) fn add_run(&mut self, run: &RunMeasure) -> Result<(), AllocError> {
        if self.first.is_none() {
            self.first = Some(run.op);
        }
        if self.rows.is_empty() || self.first == Some(run.op) {
            self.rows.push(RoundRecord {
                runs: 0,
                changed: 0,
                compared: ContentsComparison::none(),
                nanos: 0,
            })?;
        }
        if let Some(row) = self.rows.last_mut() {
            row.add(run);
        }
        Ok(())
    }
}
