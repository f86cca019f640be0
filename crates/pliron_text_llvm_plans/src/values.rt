//! Operands, by what they are.
ghost use Rattle.std.specs.Prelude.{◌≡◌, ℕ, None, [], IfOk};
ghost use Rattle.pliron_text_llvm_sheets.specs.Constants.{constant_at};
ghost use Rattle.pliron_text_llvm_sheets.specs.Sheets.{KeepsSheet};
ghost use Rattle.pliron_text_llvm_plans.specs.Values.{KeepsPlannedConstants, IsMadeAnew, IsSharedConstant, IsPlannedValue};

use crate::plan::FunctionSource;
use pliron_text_llvm_classes::names_undef;
use pliron_text_llvm_edges::{bytes_at, target_at};
use pliron_text_llvm_sheets::{ConstantTable, LlvmSheet, TextConstant};
use std::alloc::{AllocError, Global};

/// What an operand of an operation is.
#[doc(hidden)]
#[derive(Clone, Copy, Debug, Drop, PartialEq, Eq)]
pub enum PlannedValue {
    /// What the function defines by this number.
    Defined(usize),
    /// The constant of this number.
    Constant(usize),
    /// The constant of this number that is made anew, since it may be another value each time.
    Undefined(usize),
}

/// The constants of a function.
#[doc(hidden)]
#[derive(Drop)]
pub struct PlannedConstants {
    /// Those that are the same value each time.
    pub table: ConstantTable,
    /// Of those that may be another value each time the numbers of their texts: one for each place where one is read.
    pub undefined: Vec<usize>,
}

impl PlannedConstants {
    /// None yet. Takes no memory. Cost: constant.
    pub fn new(alloc: Global) -> PlannedConstants
        ensures table { (number : ℕ) → constant_at result.table number ≡ None }
        ensures undefined { result.undefined.items ≡ [] }
    {
        PlannedConstants {
            table: ConstantTable::new(alloc),
            undefined: Vec::new(alloc),
        }
    }
}

// The constant of this text made anew.
#[tactic(auto, using(crate::proofs::ValueLemmas::planned_kept, crate::proofs::ValueLemmas::planned_anew, pliron_text_llvm_sheets::proofs::KeepingLemmas::sheet_steps))]
fn plan_undefined(
    text: &[u8],
    sheet: &mut LlvmSheet,
    constants: &mut PlannedConstants,
) -> Result<PlannedValue, AllocError>
    ensures value { IfOk result (λ value. IsMadeAnew text.now sheet.new constants.old constants.new value) }
    ensures sheet { KeepsSheet sheet.old sheet.new }
    ensures constants { KeepsPlannedConstants constants.old constants.new }
{
    let text = sheet.number(text)?;
    let number = constants.undefined.len();
    constants.undefined.push(text)?;
    Ok(PlannedValue::Undefined(number))
}

// The constant of this text, of a type with this width, which gets a number where it is new.
#[tactic(auto, using(crate::proofs::ValueLemmas::planned_kept, crate::proofs::ValueLemmas::planned_shared, pliron_text_llvm_sheets::proofs::KeepingLemmas::sheet_steps))]
fn plan_constant(
    text: &[u8],
    width: u32,
    sheet: &mut LlvmSheet,
    constants: &mut PlannedConstants,
) -> Result<PlannedValue, AllocError>
    ensures value { IfOk result (λ value. IsSharedConstant width text.now sheet.new constants.new value) }
    ensures sheet { KeepsSheet sheet.old sheet.new }
    ensures constants { KeepsPlannedConstants constants.old constants.new }
{
    let text = sheet.number(text)?;
    let number = constants.table.number(TextConstant { width, text })?;
    Ok(PlannedValue::Constant(number))
}

/// What is in the hole, whose type has this width: a value of the function; a constant, which gets a number where it is
/// new; or one that is made anew, since it may be another value each time. Errors: allocation failure. Cost: linear in
/// its text.
#[tactic(auto, using(crate::proofs::ValueLemmas::planned_kept, pliron_text_llvm_sheets::proofs::KeepingLemmas::sheet_steps))]
pub fn plan_value(
    alloc: Global,
    source: FunctionSource<'_>,
    width: u32,
    hole: usize,
    sheet: &mut LlvmSheet,
    constants: &mut PlannedConstants,
) -> Result<PlannedValue, AllocError>
    ensures value { IfOk result (λ value. IsPlannedValue source.entry.text.now source.entry.reading.now
        sheet.new constants.old constants.new width hole value) }
    ensures sheet { KeepsSheet sheet.old sheet.new }
    ensures constants { KeepsPlannedConstants constants.old constants.new }
{
    if let Some(number) = target_at(source.reading, hole) {
        return Ok(PlannedValue::Defined(number));
    }
    let text = bytes_at(source.text, &source.reading.body.holes, hole);
    if names_undef(alloc, text)? {
        plan_undefined(text, sheet, constants)
    } else {
        plan_constant(text, width, sheet, constants)
    }
}
