//! What is built so far of a function.
ghost use Rattle.std.specs.Prelude.{◌≡◌};
ghost use Rattle.pliron_text_llvm_sheets.specs.Sheets.{KeepsSheet};

use crate::stop::BuildStop;
use pliron_core::{BasicBlock, Operation, Ptr, Value};
use pliron_text_llvm_plans::{PlannedDefinition, PlannedValue};
use pliron_text_llvm_sheets::{LlvmSheet, ValueNote, ValueOrigin};
use std::alloc::{AllocError, Global};

/// What is built so far of a function.
#[derive(Drop)]
pub struct BuiltParts {
    pub alloc: Global,
    /// By the numbers of blocks.
    pub blocks: Vec<Ptr<BasicBlock>>,
    /// By the numbers of definitions.
    values: Vec<Option<Value>>,
    /// By the numbers of constants.
    constants: Vec<Value>,
    /// By the numbers of constants that are made anew.
    undefined: Vec<Value>,
    /// By the numbers of planned operations.
    pub operations: Vec<Ptr<Operation>>,
}

// Notes that the value is a constant.
#[tactic(auto, using(pliron_text_llvm_sheets::proofs::KeepingLemmas::sheet_steps))]
fn note_constant(value: Value, sheet: &mut LlvmSheet) -> Result<(), BuildStop>
    ensures { KeepsSheet sheet.old sheet.new }
{
    let note = ValueNote {
        origin: ValueOrigin::Constant,
        name: None,
    };
    Ok(sheet.note_value(value.key() as usize, note)?)
}

impl BuiltParts {
    /// Nothing yet. Takes no memory. Cost: constant.
    pub fn new(alloc: Global) -> BuiltParts {
        BuiltParts {
            alloc,
            blocks: Vec::new(alloc),
            values: Vec::new(alloc),
            constants: Vec::new(alloc),
            undefined: Vec::new(alloc),
            operations: Vec::new(alloc),
        }
    }

    // The definition of this number is the value. Cost: constant, amortised.
    fn put(&mut self, number: usize, value: Value) -> Result<(), AllocError> {
        if number >= self.values.len() {
            self.values.resize(number, None)?;
            self.values.push(Some(value))?;
        } else {
            self.values[number] = Some(value);
        }
        Ok(())
    }

    /// The definition is the value, of which the sheet notes what is planned. Errors: allocation failure. Cost: constant,
    /// amortised.
    #[tactic(auto, using(pliron_text_llvm_sheets::proofs::KeepingLemmas::sheet_steps))]
    pub fn define(
        &mut self,
        definition: PlannedDefinition,
        value: Value,
        sheet: &mut LlvmSheet,
    ) -> Result<(), BuildStop>
        ensures { KeepsSheet sheet.old sheet.new }
    {
        self.put(definition.number, value)?;
        Ok(sheet.note_value(value.key() as usize, definition.note)?)
    }

    /// The next constant is the value, which the sheet notes. Errors: allocation failure. Cost: constant, amortised.
    #[tactic(auto, using(pliron_text_llvm_sheets::proofs::KeepingLemmas::sheet_steps))]
    pub fn push_constant(&mut self, value: Value, sheet: &mut LlvmSheet) -> Result<(), BuildStop>
        ensures { KeepsSheet sheet.old sheet.new }
    {
        self.constants.push(value)?;
        note_constant(value, sheet)
    }

    /// The next constant that is made anew is the value, which the sheet notes. Errors: allocation failure. Cost:
    /// constant, amortised.
    #[tactic(auto, using(pliron_text_llvm_sheets::proofs::KeepingLemmas::sheet_steps))]
    pub fn push_undefined(&mut self, value: Value, sheet: &mut LlvmSheet) -> Result<(), BuildStop>
        ensures { KeepsSheet sheet.old sheet.new }
    {
        self.undefined.push(value)?;
        note_constant(value, sheet)
    }

    /// The block of this number, if it is made. Cost: constant.
    pub fn block(&self, number: usize) -> Option<Ptr<BasicBlock>> {
        self.blocks.get(number).copied()
    }

    /// The operation of this number, if it is made. Cost: constant.
    pub fn operation(&self, number: usize) -> Option<Ptr<Operation>> {
        self.operations.get(number).copied()
    }

    /// The value that is planned, if it is made. Cost: constant.
    pub fn value(&self, planned: PlannedValue) -> Option<Value> {
        match planned {
            PlannedValue::Defined(number) => match self.values.get(number) {
                Some(value) => *value,
                None => None,
            },
            PlannedValue::Constant(number) => self.constants.get(number).copied(),
            PlannedValue::Undefined(number) => self.undefined.get(number).copied(),
        }
    }
}
