//! Syntax in the order of the text.
ghost use Rattle.std.specs.Prelude.{◌≡◌, IsTrue, ◌+◌};
ghost use Rattle.pliron_text.specs.Notation.{AllBelow, AreInRegion, AreSoundOperations, IsNext, IsOrdered, IsSoundRoot, IsSoundSyntax, IsSoundOperation, IsUpToLast, first_made};

use smallvec::SmallVec;
use std::alloc::{AllocError, Global};

/// The attribute that a text writes of an operation.
#[derive(Clone, Copy, Debug, PartialEq, Eq)]
pub enum AttributeText {
    /// It has none.
    Nothing,
    /// The number behind its word.
    Number(i64),
    /// How many operands its first block is passed.
    Count(usize),
}

/// What a text writes of an operation. Values, blocks and regions are named by numbers, in the order in which they are
/// made: an operation is made with its results and regions.
#[derive(Drop)]
pub struct OperationText {
    /// The number of its kind.
    pub kind: u32,
    /// The mark of heads of its kind.
    pub ssa: bool,
    pub attribute: AttributeText,
    pub results: usize,
    pub regions: usize,
    /// The block that it is in; nothing reads that of the whole text.
    pub block: usize,
    pub operands: SmallVec<usize, 2>,
    pub successors: Vec<usize>,
}

impl OperationText {
    /// An operation of the kind with this number and mark, in the first block, without anything else. Cost: constant.
    #[inline(always)]
    pub fn new(alloc: Global, kind: u32, ssa: bool) -> Self {
        OperationText {
            kind,
            ssa,
            attribute: AttributeText::Nothing,
            results: 0,
            regions: 0,
            block: 0,
            operands: SmallVec::new(alloc),
            successors: Vec::new(alloc),
        }
    }
}

/// What a text writes of a block.
#[derive(Clone, Copy, Drop)]
pub struct BlockText {
    pub region: usize,
    pub arguments: usize,
    /// Its last operation, if it has one.
    pub last: Option<usize>,
}

/// What a text makes next: the operation or the block of this number.
#[derive(Clone, Copy, Drop)]
pub enum SyntaxStep {
    Operation(usize),
    Block(usize),
}

/// A text: the operation that it is as a whole, and what is inside that, in the order of the text. Values and regions
/// are numbered from those of the whole on.
#[derive(Drop)]
pub struct Syntax {
    pub root: OperationText,
    pub steps: Vec<SyntaxStep>,
    pub operations: Vec<OperationText>,
    pub blocks: Vec<BlockText>,
    pub values: usize,
}

impl Syntax {
    /// The syntax of a text of which nothing is read. Cost: constant.
    pub fn new(alloc: Global) -> Self {
        Syntax {
            root: OperationText::new(alloc, 0, false),
            steps: Vec::new(alloc),
            operations: Vec::new(alloc),
            blocks: Vec::new(alloc),
            values: 0,
        }
    }

    /// Makes room for so many more operations. Errors: allocation failure. Cost: the number of operations.
    pub fn reserve(&mut self, operations: usize) -> Result<(), AllocError> {
        self.steps.reserve(operations)?;
        self.operations.reserve(operations)
    }

    /// Adds the next operation of the text, as the next step, and answers its number. Errors: allocation failure.
    /// Cost: constant, amortised.
    #[inline(always)]
    pub fn add_operation(&mut self, operation: OperationText) -> Result<usize, AllocError> {
        let number = self.operations.len();
        self.steps.push(SyntaxStep::Operation(number))?;
        self.operations.reserve(1)?;
        self.operations.push_reserved(operation);
        Ok(number)
    }

    /// Takes in that an operation, or the whole text, has so many regions. Cost: constant.
    pub fn set_regions(&mut self, operation: Option<usize>, regions: usize) {
        let Some(number) = operation else {
            self.root.regions = regions;
            return;
        };
        if let Some(text) = self.operations.get_mut(number) {
            text.regions = regions;
        }
    }

    /// Whether all can be made in this order, and makes a tree with edges only at the ends of blocks.
    /// Cost: one step for each operation, block, operand and successor.
    pub fn is_sound(&self) -> bool
        ensures { IsTrue result → IsSoundSyntax self.now }
    {
        if !self.is_ordered() || !self.is_root_sound() {
            return false;
        }
        self.are_operations_sound()
    }

    // Whether the steps have each operation and each block once, in order and where its place is
    // made already, and make so many values.
    fn is_ordered(&self) -> bool
        ensures { IsTrue result → IsOrdered self.now (first_made self.now.root) self.now.steps.items }
    {
        let mut made = MadeCounts::of_root(&self.root);
        for step in &self.steps {
            if !made.take(self, *step) {
                return false;
            }
        }
        made.operations == self.operations.len()
            && made.blocks == self.blocks.len()
            && made.values == self.values
    }

    // Whether the whole text has values of the text as operands, and no successors.
    fn is_root_sound(&self) -> bool
        ensures { IsTrue result → IsSoundRoot self.now }
    {
        if !self.root.successors.is_empty() {
            return false;
        }
        are_below(self.root.operands.as_slice(), self.values)
    }

    fn are_operations_sound(&self) -> bool
        ensures { IsTrue result → AreSoundOperations self.now }
    {
        for number in 0..self.operations.len() {
            if !self.is_operation_sound(number, &self.operations[number]) {
                return false;
            }
        }
        true
    }

    // Whether the operation names values and blocks of the text and, if it has successors, is the last of its block
    // and names blocks of its own region.
    fn is_operation_sound(&self, number: usize, operation: &OperationText) -> bool
        ensures { IsTrue result → IsSoundOperation self.now number operation.now }
    {
        let Some(block) = self.blocks.get(operation.block) else {
            return false;
        };
        if !is_placed(block.last, number, operation) {
            return false;
        }
        if !are_below(operation.operands.as_slice(), self.values) {
            return false;
        }
        self.are_in_region(&operation.successors, block.region)
    }

    fn are_in_region(&self, blocks: &[usize], region: usize) -> bool
        ensures { IsTrue result → AreInRegion self.now region blocks.now }
    {
        for number in blocks {
            match self.blocks.get(*number) {
                Some(block) if block.region == region => {}
                _ => return false,
            }
        }
        true
    }
}

// Whether the operation isn't after the last of its block, and is that last if it has successors.
fn is_placed(last: Option<usize>, number: usize, operation: &OperationText) -> bool
    ensures { IsTrue result → IsUpToLast last number operation.now }
{
    match last {
        Some(last) => number <= last && (operation.successors.is_empty() || number == last),
        None => false,
    }
}

// Whether all of these are below the count.
fn are_below(numbers: &[usize], count: usize) -> bool
    ensures { IsTrue result → AllBelow count numbers.now }
{
    for number in numbers {
        if *number >= count {
            return false;
        }
    }
    true
}

/// How much is made so far.
#[derive(Clone, Copy)]
struct MadeCounts {
    operations: usize,
    blocks: usize,
    regions: usize,
    values: usize,
}

impl MadeCounts {
    // What is made with the whole text's operation.
    fn of_root(root: &OperationText) -> Self
        ensures { result ≡ first_made root.now }
    {
        MadeCounts {
            operations: 0,
            blocks: 0,
            regions: root.regions,
            values: root.results,
        }
    }

    // Counts what the step makes, and answers whether it is the next and its place is made.
    fn take(&mut self, syntax: &Syntax, step: SyntaxStep) -> bool
        ensures { IsTrue result → IsNext syntax.now self.old step self.new }
    {
        match step {
            SyntaxStep::Operation(number) => match syntax.operations.get(number) {
                Some(operation) if number == self.operations && operation.block < self.blocks => {
                    self.operations += 1;
                    self.add(operation.regions, operation.results)
                }
                _ => false,
            },
            SyntaxStep::Block(number) => match syntax.blocks.get(number) {
                Some(block) if number == self.blocks && block.region < self.regions => {
                    self.blocks += 1;
                    self.add(0, block.arguments)
                }
                _ => false,
            },
        }
    }

    // Counts so many more regions and values, and answers whether they can be counted.
    fn add(&mut self, regions: usize, values: usize) -> bool
        ensures { IsTrue result → self.new ≡ record {
          operations = self.old.operations;
          blocks = self.old.blocks;
          regions = self.old.regions + regions;
          values = self.old.values + values;
        } }
    {
        match (
            self.regions.checked_add(regions),
            self.values.checked_add(values),
        ) {
            (Some(regions), Some(values)) => {
                self.regions = regions;
                self.values = values;
                true
            }
            _ => false,
        }
    }
}
