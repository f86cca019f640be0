//! The names of values and blocks while passes work: those of the text that was read, and fresh ones for what passes
//! make.
use pliron_core::{Contents, Context, Operation, Ptr, Value};
use pliron_laws::reads::all_operands;
use pliron_show::{DefinitionOrder, NameSource, NewNames, name_of_head, number_in_pack};
use pliron_show_places::TextParts;
use std::alloc::{AllocError, Global};
use std::collections::{HashMap, HashSet};

/// The operands of an operation before a pass.
#[derive(Drop)]
pub struct OperandsBefore {
    op: Ptr<Operation>,
    operands: Vec<Value>,
}

/// The operands of all operations inside the root; none for a root that isn't live. Errors: allocation failure. Cost:
/// linear in what is live there.
pub fn operands_before(
    alloc: Global,
    root: Ptr<Operation>,
    ctx: &Context,
) -> Result<Vec<OperandsBefore>, AllocError> {
    let mut before = Vec::new(alloc);
    if !root.is_live(ctx) {
        return Ok(before);
    }
    for op in Contents::new(root, ctx) {
        if op.is_live(ctx) {
            let operands = all_operands(alloc, op, ctx)?;
            before.push(OperandsBefore { op, operands })?;
        }
    }
    Ok(before)
}

/// The names of the values and blocks of a text while passes work on it.
#[derive(Drop)]
pub struct TextNames<'t> {
    alloc: Global,
    text: &'t [u8],
    parts: &'t TextParts,
    /// What new names begin with.
    new_names: NewNames,
    /// What the text doesn't name by itself, by handles, and what that is called.
    values: HashMap<u64, String>,
    blocks: HashMap<u64, String>,
    /// All names so far.
    taken: HashSet<String>,
    /// For a name the greatest number behind it that was tried.
    last_numbers: HashMap<String, usize>,
}

// The bytes as a word.
fn word_of(alloc: Global, bytes: &[u8]) -> Result<String, AllocError> {
    let mut word = String::new(alloc);
    for byte in bytes {
        word.push(char::from(*byte))?;
    }
    Ok(word)
}

// What names are made from this one: one of digits behind a sign gets a letter.
fn base_of(alloc: Global, name: &str) -> Result<String, AllocError> {
    let mut base = String::new(alloc);
    let mut is_behind_sign = false;
    for letter in name.chars() {
        if is_behind_sign && letter.is_ascii_digit() {
            base.push('v')?;
        }
        base.push(letter)?;
        is_behind_sign = letter == '%';
    }
    Ok(base)
}

impl<'t> TextNames<'t> {
    /// The names of the text, of which these are the parts, and new ones for what the text doesn't name by itself. Errors:
    /// allocation failure. Cost: linear in the text.
    pub fn new(
        alloc: Global,
        text: &'t [u8],
        parts: &'t TextParts,
        new_names: NewNames,
    ) -> Result<Self, AllocError> {
        let mut taken = HashSet::new(alloc);
        for value in &parts.values {
            taken.insert(word_of(alloc, value.part.of(text))?)?;
        }
        for block in &parts.blocks {
            taken.insert(word_of(alloc, name_of_head(block.of(text)))?)?;
        }
        let mut names = TextNames {
            alloc,
            text,
            parts,
            new_names,
            values: HashMap::new(alloc),
            blocks: HashMap::new(alloc),
            taken,
            last_numbers: HashMap::new(alloc),
        };
        match names.name_packs() {
            Ok(()) => Ok(names),
            Err(error) => Err(error),
        }
    }

    // Names each of several values that share a name.
    fn name_packs(&mut self) -> Result<(), AllocError> {
        let parts = self.parts;
        for at in 0..parts.values.len() {
            if let Some(name) = parts.values.get(at)
                && name.part.len > 0
                && number_in_pack(parts, at).is_some()
            {
                let shared = word_of(self.alloc, name.part.of(self.text))?;
                let own = self.fresh(shared.as_str())?;
                self.values.insert(at as u64, own)?;
            }
        }
        Ok(())
    }

    // A name that nothing has yet, made from this one: it and a number behind it.
    fn fresh(&mut self, base: &str) -> Result<String, AllocError> {
        let key = base_of(self.alloc, base)?;
        let mut number = self.last_numbers.get(&key).copied().unwrap_or(0);
        for _ in 0..u64::MAX {
            number = number.saturating_add(1);
            let name = format!(in self.alloc; "{key}_{number}")?;
            if !self.taken.contains(&name) {
                self.taken.insert(name.clone()?)?;
                self.last_numbers.insert(key, number)?;
                return Ok(name);
            }
        }
        Ok(key)
    }

    // Whether the text names the value.
    fn is_named_value(&self, key: u64) -> bool {
        self.parts.value(key).is_some_and(|name| name.part.len > 0)
    }

    // Whether the text names the block.
    fn is_named_block(&self, key: u64) -> bool {
        self.parts.block_part(key).is_some_and(|part| part.len > 0)
    }

    // Whether the value has a name.
    fn has_name(&self, value: Value) -> bool {
        self.is_named_value(value.key()) || self.values.contains_key(&value.key())
    }

    // Names a value that is used where another one was.
    fn name_after(&mut self, old: Value, new: Value) -> Result<(), AllocError> {
        if self.has_name(new) {
            return Ok(());
        }
        let mut base = String::new(self.alloc);
        self.push_value(old.key(), &mut base)?;
        let name = self.fresh(base.as_str())?;
        self.values.insert(new.key(), name)?;
        Ok(())
    }

    // Names the values that the operation now takes in place of others.
    fn name_operands(&mut self, ctx: &Context, before: &OperandsBefore) -> Result<(), AllocError> {
        if !before.op.is_live(ctx) {
            return Ok(());
        }
        let count = before.op.num_operand(ctx);
        if count != before.operands.len() {
            return Ok(());
        }
        for index in 0..count {
            let (old, new) = (before.operands[index], before.op.get_operand(ctx, index));
            if old != new {
                self.name_after(old, new)?;
            }
        }
        Ok(())
    }

    // Names all that has no name yet.
    fn name_others(&mut self, order: &DefinitionOrder) -> Result<(), AllocError> {
        for function in &order.functions {
            for value in function {
                if !self.has_name(*value) {
                    let name = self.fresh(self.new_names.value)?;
                    self.values.insert(value.key(), name)?;
                }
            }
        }
        for region in &order.regions {
            for block in region {
                if !self.is_named_block(block.key()) && !self.blocks.contains_key(&block.key()) {
                    let name = self.fresh(self.new_names.block)?;
                    self.blocks.insert(block.key(), name)?;
                }
            }
        }
        Ok(())
    }

    /// Gives names to what a pass made: a value that operations take in place of another one is called after that.
    /// Errors: allocation failure. Cost: linear in what was live before and what is written.
    pub fn extend(
        &mut self,
        ctx: &Context,
        before: &[OperandsBefore],
        order: &DefinitionOrder,
    ) -> Result<(), AllocError> {
        for state in before {
            self.name_operands(ctx, state)?;
        }
        self.name_others(order)
    }
}

impl NameSource for TextNames<'_> {
    fn push_value(&self, key: u64, line: &mut String) -> Result<(), AllocError> {
        if let Some(name) = self.values.get(&key) {
            return line.push_str(name.as_str());
        }
        match self.parts.value(key) {
            Some(name) => line.push_str(word_of(self.alloc, name.part.of(self.text))?.as_str()),
            None => line.push_str("_"),
        }
    }

    fn push_block(&self, key: u64, line: &mut String) -> Result<(), AllocError> {
        if let Some(name) = self.blocks.get(&key) {
            return line.push_str(name.as_str());
        }
        match self.parts.block(self.text, key) {
            Some(head) => line.push_str(word_of(self.alloc, name_of_head(head))?.as_str()),
            None => line.push_str("_"),
        }
    }
}
