//! Tables of words and numbers.
use std::alloc::{AllocError, Global};

/// A table whose columns are as wide as the longest of their cells.
#[derive(Drop)]
pub struct Table {
    rows: Vec<Vec<String>>,
    widths: Vec<usize>,
}

// Writes a cell at the right of a column, behind two blanks where it isn't the first.
fn write_cell(
    text: &mut String,
    cell: &str,
    width: usize,
    is_first: bool,
) -> Result<(), AllocError> {
    let gap = if is_first { 0 } else { 2 };
    for _ in cell.len()..width.saturating_add(gap) {
        text.push(' ')?;
    }
    text.push_str(cell)
}

impl Table {
    /// A table without rows. Cost: constant.
    pub fn new(alloc: Global) -> Self {
        Table {
            rows: Vec::new(alloc),
            widths: Vec::new(alloc),
        }
    }

    /// Adds a row. Errors: allocation failure. Cost: linear in its cells.
    pub fn push(&mut self, row: Vec<String>) -> Result<(), AllocError> {
        for i in 0..row.len() {
            let width = row[i].len();
            match self.widths.get_mut(i) {
                Some(widest) => *widest = width.max(*widest),
                None => self.widths.push(width)?,
            }
        }
        self.rows.push(row)?;
        Ok(())
    }

    /// Writes the rows, each on a line. Errors: allocation failure. Cost: linear in what is written.
    pub fn write(&self, text: &mut String) -> Result<(), AllocError> {
        for row in &self.rows {
            for i in 0..row.len() {
                let width = self.widths.get(i).copied().unwrap_or(0);
                write_cell(text, row[i].as_str(), width, i == 0)?;
            }
            text.push_str("\n")?;
        }
        Ok(())
    }
}
