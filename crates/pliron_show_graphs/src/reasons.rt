//! Why operations and arguments changed or were erased, by what a rewrite does and what was live before it.
ghost use Rattle.pliron_core.specs.Tree.{IsBlock, IsDefined, IsLive};

use crate::tree_state::{BlockSnapshot, OperationState, TreeState};
use pliron_core::{BasicBlock, Context, Def, Operation, Ptr, Value};
use pliron_show::{ShownNotation, name_of_head, push_value_name};
use pliron_show_places::{TextPart, TextParts, push_on_one_line};
use std::alloc::{AllocError, Global};
use std::collections::{HashMap, HashSet};
use std::marker::PhantomData;

/// A rewrite of a tree by a pass: the kind of rewrite is the reason of each change.
#[derive(Clone, Copy, Debug, Drop, PartialEq, Eq)]
pub enum Rewrite {
    /// Results and arguments are replaced by constants.
    Constants,
    /// What nothing uses is erased.
    DeadCode,
    /// Branches whose condition is known become jumps.
    Branches,
    /// Blocks that the entry doesn't reach are erased.
    Unreachable,
    /// Blocks are joined.
    Joining,
    /// Redundant operations are erased.
    Subexpressions,
    /// Results and arguments are replaced by the values that they equal.
    Canonicalization,
    /// What rules build has the uses of results.
    Combination,
    /// Edges are led past blocks that only jump.
    EdgeThreading,
}

/// What is reported of one operation or argument.
#[derive(Drop)]
pub struct Reason {
    /// Where it is in the text, and what it is.
    pub part: TextPart,
    pub subject: String,
    pub why: String,
}

/// How many bytes of an operation are shown.
const SHOWN: usize = 60;

/// What is reported of a rewrite, so far.
#[derive(Drop)]
pub struct Reasons<'t, N: ShownNotation> {
    alloc: Global,
    of: PhantomData<N>,
    text: &'t [u8],
    words: &'t TextParts,
    sheet: &'t N::Sheet,
    rewrite: Rewrite,
    /// The constants that replaced values.
    constants: HashMap<Value, String>,
    /// Those of them that nothing uses.
    unused: HashSet<Value>,
    /// The values that replaced others.
    replacements: HashMap<Value, Value>,
    /// For a block, the number of the state of the branch that led to it and was erased.
    branches: HashMap<Ptr<BasicBlock>, usize>,
    pub reasons: Vec<Reason>,
}

// The constant that the value is, as people read it, where an operation makes it.
fn constant_made<N: ShownNotation>(
    alloc: Global,
    ctx: &Context,
    value: Value,
    sheet: &N::Sheet,
) -> Result<Option<String>, AllocError>
    requires { IsDefined ctx.now.tree value }
{
    match value.def(ctx) {
        Def::Result(op, _) => N::constant(alloc, op, sheet, ctx),
        Def::Argument(_, _) => Ok(None),
    }
}

// The first successor of the last operation of a block.
fn jump_target(ctx: &Context, block: Ptr<BasicBlock>) -> Option<Ptr<BasicBlock>>
    requires { IsBlock ctx.now.tree block }
{
    let op = block.get_tail(ctx)?;
    if op.num_successor(ctx) > 0 {
        Some(op.get_successor(ctx, 0))
    } else {
        None
    }
}

// Separates a phrase from those before it.
fn part_phrases(why: &mut String) -> Result<(), AllocError> {
    why.push_str(if why.is_empty() { "" } else { ", " })
}

impl<'t, N: ShownNotation> Reasons<'t, N> {
    /// No reasons so far, for a text with these words and this sheet. Cost: constant.
    pub fn new(
        alloc: Global,
        text: &'t [u8],
        words: &'t TextParts,
        sheet: &'t N::Sheet,
        rewrite: Rewrite,
    ) -> Self {
        Reasons {
            alloc,
            of: PhantomData,
            text,
            words,
            sheet,
            rewrite,
            constants: HashMap::new(alloc),
            unused: HashSet::new(alloc),
            replacements: HashMap::new(alloc),
            branches: HashMap::new(alloc),
            reasons: Vec::new(alloc),
        }
    }

    // Adds the name of a block.
    fn push_block(&self, reported: &mut String, block: Ptr<BasicBlock>) -> Result<(), AllocError> {
        let head = self.words.block(self.text, block.key()).unwrap_or(b"_");
        push_on_one_line(reported, name_of_head(head))
    }

    // Adds what a value is called: its name in the text, or the number that it is.
    fn push_value(
        &self,
        ctx: &Context,
        reported: &mut String,
        value: Value,
    ) -> Result<(), AllocError> {
        if push_value_name(reported, self.text, self.words, value.key())? {
            return Ok(());
        }
        let made = if value.is_live(ctx) {
            constant_made::<N>(self.alloc, ctx, value, self.sheet)?
        } else {
            None
        };
        match made {
            Some(constant) => reported.push_str(constant.as_str()),
            None => reported.push_str("a new value"),
        }
    }

    // Adds the reason of an operation of the text.
    fn add_operation(&mut self, op: Ptr<Operation>, why: String) -> Result<(), AllocError> {
        let Some(part) = self.words.operation_part(op.key()) else {
            return Ok(());
        };
        let mut line = String::new(self.alloc);
        push_on_one_line(&mut line, part.of(self.text))?;
        let mut subject = String::new(self.alloc);
        for letter in line.chars().take(SHOWN) {
            subject.push(letter)?;
        }
        subject.push_str(if line.len() > SHOWN { " .." } else { "" })?;
        self.reasons.push(Reason { part, subject, why })?;
        Ok(())
    }

    // Adds the reason of an argument of the text.
    fn add_argument(
        &mut self,
        block: Ptr<BasicBlock>,
        argument: Value,
        why: &str,
    ) -> Result<(), AllocError> {
        let Some(name) = self.words.value(argument.key()) else {
            return Ok(());
        };
        let mut subject = format!(in self.alloc; "argument ")?;
        push_value_name(&mut subject, self.text, self.words, argument.key())?;
        subject.push_str(" of ")?;
        self.push_block(&mut subject, block)?;
        self.reasons.push(Reason {
            part: name.part,
            subject,
            why: String::from_str(self.alloc, why)?,
        })?;
        Ok(())
    }
}

impl<N: ShownNotation> Reasons<'_, N> {
    // Notes the constants that operands of the operation name now.
    fn note_constants(&mut self, ctx: &Context, state: &OperationState) -> Result<(), AllocError>
        requires { IsLive ctx.now.tree state.now.op }
    {
        let count = state.op.num_operand(ctx).min(state.operands.len());
        for i in 0..count {
            let (old, new) = (state.operands[i], state.op.get_operand(ctx, i));
            if old != new
                && let Some(constant) = constant_made::<N>(self.alloc, ctx, new, self.sheet)?
            {
                self.constants.insert(old, constant)?;
            }
        }
        Ok(())
    }

    // Notes the values that operands of the operation name now in place of others.
    fn note_replacements(&mut self, ctx: &Context, state: &OperationState) -> Result<(), AllocError>
        requires { IsLive ctx.now.tree state.now.op }
    {
        let count = state.op.num_operand(ctx).min(state.operands.len());
        for i in 0..count {
            let (old, new) = (state.operands[i], state.op.get_operand(ctx, i));
            if old != new {
                self.replacements.insert(old, new)?;
            }
        }
        Ok(())
    }

    // Notes the constant that was made for the result of an operation, where nothing used that result: the constant is
    // new, and is right before the operation.
    fn note_unused(
        &mut self,
        ctx: &Context,
        state: &OperationState,
        first_new: u64,
    ) -> Result<(), AllocError>
        requires { IsLive ctx.now.tree state.now.op }
    {
        let (Some(result), Some(put)) = (state.results.first(), state.op.get_prev(ctx)) else {
            return Ok(());
        };
        let is_new = put.key() >= first_new && put.num_result(ctx) == 1;
        if !is_new || self.constants.contains_key(result) {
            return Ok(());
        }
        let result_made = put.get_result(ctx, 0);
        if let Some(constant) = constant_made::<N>(self.alloc, ctx, result_made, self.sheet)? {
            self.constants.insert(*result, constant)?;
            self.unused.insert(*result)?;
        }
        Ok(())
    }

    // Notes the constants that were made for results that nothing uses.
    fn note_all_unused(&mut self, ctx: &Context, before: &TreeState) -> Result<(), AllocError> {
        let mut first_new: u64 = 0;
        for state in &before.operations {
            first_new = first_new.max(state.op.key().saturating_add(1));
        }
        for state in &before.operations {
            if self.rewrite == Rewrite::Constants && state.op.is_live(ctx) {
                self.note_unused(ctx, state, first_new)?;
            }
        }
        Ok(())
    }

    // Notes what the reasons of others need.
    fn note(&mut self, ctx: &Context, before: &TreeState) -> Result<(), AllocError> {
        for i in 0..before.operations.len() {
            let state = &before.operations[i];
            let successor = state.successors.first().copied();
            match (self.rewrite, state.op.is_live(ctx), successor) {
                (Rewrite::Constants, true, _) => self.note_constants(ctx, state)?,
                (
                    Rewrite::Subexpressions | Rewrite::Canonicalization | Rewrite::Combination,
                    true,
                    _,
                ) => self.note_replacements(ctx, state)?,
                (Rewrite::Joining, false, Some(target)) => {
                    self.branches.insert(target, i)?;
                }
                _ => {}
            }
        }
        Ok(())
    }

    // Adds what had computed before what an erased operation computed.
    fn push_leader(
        &self,
        ctx: &Context,
        state: &OperationState,
        why: &mut String,
    ) -> Result<(), AllocError> {
        why.push_str("computed already")?;
        for value in &state.results {
            if let Some(leader) = self.replacements.get(value) {
                let leader = *leader;
                why.push_str(", as ")?;
                return self.push_value(ctx, why, leader);
            }
        }
        Ok(())
    }

    // Adds to which blocks the branch that ends this block now leads in place of others.
    fn push_led(
        &self,
        ctx: &Context,
        state: &OperationState,
        block: Ptr<BasicBlock>,
        why: &mut String,
    ) -> Result<(), AllocError>
        requires { IsBlock ctx.now.tree block }
    {
        let Some(branch) = block.get_tail(ctx) else {
            return Ok(());
        };
        let count = branch.num_successor(ctx).min(state.successors.len());
        for i in 0..count {
            let (old, new) = (state.successors[i], branch.get_successor(ctx, i));
            if old != new {
                part_phrases(why)?;
                why.push_str("goes to ")?;
                self.push_block(why, new)?;
                why.push_str(" for ")?;
                self.push_block(why, old)?;
            }
        }
        Ok(())
    }

    // Why an operation was erased.
    fn why_erased(&self, ctx: &Context, state: &OperationState) -> Result<String, AllocError> {
        let mut why = String::new(self.alloc);
        let successor = state.successors.first().copied();
        match (self.rewrite, state.holder, state.block, successor) {
            (Rewrite::DeadCode, Some(holder), _, _) if !holder.is_live(ctx) => {
                why.push_str("inside an operation that went")?;
            }
            (Rewrite::DeadCode, _, _, _) => why.push_str("unused")?,
            (Rewrite::Subexpressions, _, _, _) => self.push_leader(ctx, state, &mut why)?,
            (Rewrite::Unreachable, _, _, _) => why.push_str("unreachable")?,
            (Rewrite::Branches, _, Some(block), _) if block.is_live(ctx) => {
                if let Some(target) = jump_target(ctx, block) {
                    why.push_str("always goes to ")?;
                    self.push_block(&mut why, target)?;
                }
            }
            (Rewrite::Joining, _, _, Some(target)) => {
                self.push_block(&mut why, target)?;
                why.push_str(" was merged into its block")?;
            }
            (Rewrite::EdgeThreading, _, Some(block), _) if block.is_live(ctx) => {
                self.push_led(ctx, state, block, &mut why)?;
            }
            _ => {}
        }
        Ok(why)
    }

    // Adds which values the operation takes in place of others, where it has as many operands as before.
    fn push_taken(
        &self,
        ctx: &Context,
        state: &OperationState,
        why: &mut String,
    ) -> Result<(), AllocError>
        requires { IsLive ctx.now.tree state.now.op }
    {
        let count = state.op.num_operand(ctx).min(state.operands.len());
        for i in 0..count {
            let (old, new) = (state.operands[i], state.op.get_operand(ctx, i));
            if old != new && (i == 0 || state.operands[i - 1] != old) {
                part_phrases(why)?;
                why.push_str("takes ")?;
                self.push_value(ctx, why, new)?;
                why.push_str(" for ")?;
                self.push_value(ctx, why, old)?;
            }
        }
        Ok(())
    }

    // Adds which values the operation lost, where it kept the others in order.
    fn push_lost(
        &self,
        ctx: &Context,
        state: &OperationState,
        why: &mut String,
    ) -> Result<(), AllocError>
        requires { IsLive ctx.now.tree state.now.op }
    {
        let mut kept = 0;
        for old in &state.operands {
            if kept < state.op.num_operand(ctx) && state.op.get_operand(ctx, kept) == *old {
                kept += 1;
            } else {
                part_phrases(why)?;
                why.push_str("passes ")?;
                self.push_value(ctx, why, *old)?;
                why.push_str(" no more")?;
            }
        }
        Ok(())
    }

    // Adds which constants the results of an operation are.
    fn push_constants(&self, state: &OperationState, why: &mut String) -> Result<(), AllocError> {
        for value in &state.results {
            if let Some(constant) = self.constants.get(value) {
                part_phrases(why)?;
                write!(why, "folded to {constant} by its operands")?;
                if self.unused.contains(value) {
                    why.push_str(", and nothing uses it")?;
                }
            }
        }
        Ok(())
    }

    // Adds that a result has no uses any more, as a rule gave them to another value.
    fn push_rewritten(&self, state: &OperationState, why: &mut String) -> Result<(), AllocError> {
        let is_rewritten = state
            .results
            .iter()
            .any(|value| self.replacements.contains_key(value));
        if is_rewritten {
            part_phrases(why)?;
            why.push_str("rewritten by a rule")?;
        }
        Ok(())
    }

    // Adds which values the results of a live operation are, where their uses were replaced by uses of those.
    fn push_folded(
        &self,
        ctx: &Context,
        state: &OperationState,
        why: &mut String,
    ) -> Result<(), AllocError> {
        if self.rewrite == Rewrite::Combination {
            return self.push_rewritten(state, why);
        }
        if self.rewrite != Rewrite::Canonicalization {
            return Ok(());
        }
        for value in &state.results {
            if let Some(other) = self.replacements.get(value) {
                let other = *other;
                part_phrases(why)?;
                why.push_str("folded to ")?;
                self.push_value(ctx, why, other)?;
                why.push_str(" by its operands")?;
            }
        }
        Ok(())
    }

    // How a live operation changed; empty where it didn't.
    fn why_changed(&self, ctx: &Context, state: &OperationState) -> Result<String, AllocError>
        requires { IsLive ctx.now.tree state.now.op }
    {
        let mut why = String::new(self.alloc);
        let block = state.op.get_parent_block(ctx);
        if block != state.block
            && let Some(block) = block
        {
            why.push_str("merged into ")?;
            self.push_block(&mut why, block)?;
        }
        self.push_constants(state, &mut why)?;
        self.push_folded(ctx, state, &mut why)?;
        if state.op.num_operand(ctx) < state.operands.len() {
            self.push_lost(ctx, state, &mut why)?;
        } else {
            self.push_taken(ctx, state, &mut why)?;
        }
        Ok(why)
    }

    // Adds the reason of an operation that changed or was erased.
    fn compare_operation(
        &mut self,
        ctx: &Context,
        state: &OperationState,
    ) -> Result<(), AllocError> {
        let why = if state.op.is_live(ctx) {
            self.why_changed(ctx, state)?
        } else {
            self.why_erased(ctx, state)?
        };
        if why.is_empty() {
            return Ok(());
        }
        self.add_operation(state.op, why)
    }

    // What the argument at this index is, of a block that was joined to another.
    fn why_joined(
        &self,
        ctx: &Context,
        before: &TreeState,
        state: &BlockSnapshot,
        index: usize,
    ) -> Result<String, AllocError> {
        let mut why = format!(in self.alloc; "merged")?;
        let Some(number) = self.branches.get(&state.block) else {
            return Ok(why);
        };
        let Some(branch) = before.operations.get(*number) else {
            return Ok(why);
        };
        if branch.operands.len() == state.arguments.len()
            && let Some(value) = branch.operands.get(index)
        {
            why.push_str(", it is ")?;
            self.push_value(ctx, &mut why, *value)?;
        }
        Ok(why)
    }

    // Why the argument at this index changed or was erased; empty where neither happened.
    fn why_argument(
        &self,
        ctx: &Context,
        before: &TreeState,
        state: &BlockSnapshot,
        index: usize,
        argument: Value,
    ) -> Result<String, AllocError> {
        let mut why = String::new(self.alloc);
        match (self.rewrite, argument.is_live(ctx)) {
            (Rewrite::Constants, true) => {
                if let Some(constant) = self.constants.get(&argument) {
                    write!(why, "always {constant}")?;
                }
            }
            (Rewrite::Canonicalization, true) => {
                if let Some(value) = self.replacements.get(&argument) {
                    let value = *value;
                    why.push_str("always ")?;
                    self.push_value(ctx, &mut why, value)?;
                }
            }
            (Rewrite::DeadCode, false) => why.push_str(if state.holder.is_live(ctx) {
                "unused"
            } else {
                "inside an operation that went"
            })?,
            (Rewrite::Unreachable, false) => why.push_str("unreachable")?,
            (Rewrite::Joining, false) => return self.why_joined(ctx, before, state, index),
            _ => {}
        }
        Ok(why)
    }

    // Adds the reasons of the arguments that changed or were erased.
    fn compare_arguments(
        &mut self,
        ctx: &Context,
        before: &TreeState,
        state: &BlockSnapshot,
    ) -> Result<(), AllocError> {
        for index in 0..state.arguments.len() {
            let argument = state.arguments[index];
            let why = self.why_argument(ctx, before, state, index, argument)?;
            if !why.is_empty() {
                self.add_argument(state.block, argument, why.as_str())?;
            }
        }
        Ok(())
    }

    /// Adds the reasons of all that changed or was erased since this state, in the order of the text. Errors:
    /// allocation failure. Cost: linear in all that was live in it, but for sorting what changed.
    pub fn compare(&mut self, ctx: &Context, before: &TreeState) -> Result<(), AllocError> {
        self.note(ctx, before)?;
        self.note_all_unused(ctx, before)?;
        for state in &before.operations {
            self.compare_operation(ctx, state)?;
        }
        for state in &before.blocks {
            self.compare_arguments(ctx, before, state)?;
        }
        self.reasons.sort_by_key(|reason| reason.part.start)?;
        Ok(())
    }
}
