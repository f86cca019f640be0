//! From syntax to a tree.
//!
//! Room is reserved for twice the operations and values of a text, since constant propagation makes a constant
//! for each value; untouched room costs addresses alone.
ghost use Rattle.std.specs.Prelude.{ℕ, ◌≡◌, Some, slice_get, ◌++◌, ◌∷◌, [], ◌+◌, ◌<◌, IfOk, OnOk, OnErr, length};
ghost use Rattle.pliron_core.specs.Tree.{Tree, In, IsLive, IsBlock, results_of, regions_of, arguments_of};
ghost use Rattle.pliron_core.specs.Changes.{IsSameTree};
ghost use Rattle.pliron_text.specs.declared.syntax.Syntax.{Syntax};
ghost use Rattle.pliron_laws.specs.Datum.{Meaning};
ghost use Rattle.pliron_laws.specs.Linked.{IsWellLinked};
ghost use Rattle.pliron_text.specs.Notation.{AllBelow, AreSoundOperations, IsAdmittedSyntax, IsSoundSyntax, first_made};
ghost use Rattle.pliron_text.specs.Building.{AddsOnly, AreLive, BuildingContinues, BuildingContinuesAt, HasAllMade, HasMade, IsGrown, KeepsEntries, after_appending};
ghost use Rattle.pliron_text.specs.Laid.{HasMoreOperands, HasMoreSuccessors, IsAllLaid, IsBegun, LaysBlock, LaysOn, LaysOperation, Wires};

use crate::admission::head_of;
use crate::syntax::{BlockText, OperationText, Syntax, SyntaxStep};
use pliron_core::{
    BasicBlock, Context, Head, IRRewriter, NoMemory, Operation, Ptr, Region, Rewriter, Value,
};
use std::alloc::Global;

/// What is built so far, by number.
#[derive(Drop)]
struct BuiltTree {
    operations: Vec<Ptr<Operation>>,
    blocks: Vec<Ptr<BasicBlock>>,
    regions: Vec<Ptr<Region>>,
    values: Vec<Value>,
}

/// Builds the operation of a text, in no block, and well linked under each meaning that admits what the text has.
///
/// Asks that the syntax is sound (`is_sound` tests it). Errors: allocation failure, after which nothing of the
/// text is live. Cost: linear in the text.
pub fn build(alloc: Global, syntax: &Syntax, ctx: &mut Context) -> Result<Ptr<Operation>, NoMemory>
    requires { IsSoundSyntax syntax.now }
    ensures built { IfOk result (λ root. IsGrown ctx.old.tree ctx.new.tree root) }
    ensures linked { IfOk result (λ root. (m : Meaning) → IsAdmittedSyntax m syntax.now → IsWellLinked m
        ctx.new.tree root) }
    ensures refused { OnErr result (IsSameTree ctx.old.tree ctx.new.tree) }
{
    reserve_all(syntax, ctx)?;
    build_reserved(alloc, syntax, ctx)
}

// Makes room for all operations, blocks and values of a text, and for as many operations and values again, so
// that a pass that makes a few, as a constant for each value, grows no table. Errors: allocation failure. Cost: what
// isn't used is never written, and takes addresses and no memory where a system gives memory at the first write.
fn reserve_all(syntax: &Syntax, ctx: &mut Context) -> Result<(), NoMemory>
    ensures { ctx.new ≡ ctx.old }
{
    let operations = syntax.operations.len().saturating_add(1);
    ctx.reserve(
        operations.saturating_mul(2),
        syntax.blocks.len(),
        syntax.values.saturating_mul(2),
    )
}

// Builds the operation of a text, for which room is reserved.
fn build_reserved(
    alloc: Global,
    syntax: &Syntax,
    ctx: &mut Context,
) -> Result<Ptr<Operation>, NoMemory>
    requires { IsSoundSyntax syntax.now }
    ensures built { IfOk result (λ root. IsGrown ctx.old.tree ctx.new.tree root) }
    ensures linked { IfOk result (λ root. (m : Meaning) → IsAdmittedSyntax m syntax.now → IsWellLinked m
        ctx.new.tree root) }
    ensures refused { OnErr result (IsSameTree ctx.old.tree ctx.new.tree) }
{
    ctx.well_formed();
    let head = head_of(alloc, &syntax.root)?;
    let root = Operation::create(ctx, head, syntax.root.results, syntax.root.regions)?;
    ctx.well_formed();
    let filled = fill(alloc, syntax, ctx, root);
    ctx.well_formed();
    match filled {
        Ok(()) => Ok(root),
        Err(refused) => {
            IRRewriter::new().erase_operation(ctx, root);
            Err(refused)
        }
    }
}

// Builds all that is inside the operation of a text.
fn fill(
    alloc: Global,
    syntax: &Syntax,
    ctx: &mut Context,
    root: Ptr<Operation>,
) -> Result<(), NoMemory>
    requires sound { IsSoundSyntax syntax.now }
    requires begun { (t : Tree) × IsBegun t syntax.now.root ctx.old.tree root }
    ensures grown { (t : Tree) → IsBegun t syntax.now.root ctx.old.tree root → IsGrown t ctx.new.tree root }
    ensures laid { OnOk result ((t : Tree) → IsBegun t syntax.now.root ctx.old.tree root → IsAllLaid syntax.now t
        ctx.new.tree root) }
{
    ctx.well_formed();
    let mut built = BuiltTree {
        operations: Vec::new(alloc),
        blocks: Vec::new(alloc),
        regions: Vec::new(alloc),
        values: Vec::new(alloc),
    };
    remember_results(ctx, &mut built.values, root)?;
    remember_regions(ctx, &mut built.regions, root)?;
    make_all(alloc, syntax, ctx, &mut built)?;
    connect_all(syntax, ctx, &built)?;
    add_operands(ctx, &built, root, syntax.root.operands.as_slice())
}

// Makes all operations and blocks inside the operation of a text.
fn make_all(
    alloc: Global,
    syntax: &Syntax,
    ctx: &mut Context,
    built: &mut BuiltTree,
) -> Result<(), NoMemory>
    requires sound { IsSoundSyntax syntax.now }
    requires first { HasMade built.old (first_made syntax.now.root) }
    requires all_in_place { AreLive ctx.old.tree built.old }
    ensures continues { BuildingContinues ctx.old.tree built.old ctx.new.tree built.new }
    ensures all_in_place { AreLive ctx.new.tree built.new }
    ensures made { OnOk result (HasAllMade syntax.now built.new) }
    ensures laid { OnOk result (LaysOn syntax.now ctx.old.tree built.old ctx.new.tree built.new) }
{
    for step in &syntax.steps {
        match step {
            SyntaxStep::Operation(number) => {
                add_operation(alloc, ctx, built, &syntax.operations[*number])?;
            }
            SyntaxStep::Block(number) => add_block(ctx, built, &syntax.blocks[*number])?,
        }
    }
    Ok(())
}

// Gives all operations their operands and successors.
fn connect_all(syntax: &Syntax, ctx: &mut Context, built: &BuiltTree) -> Result<(), NoMemory>
    requires sound { AreSoundOperations syntax.now }
    requires made { HasAllMade syntax.now built.now }
    requires all_in_place { AreLive ctx.old.tree built.now }
    ensures continues { BuildingContinues ctx.old.tree built.now ctx.new.tree built.now }
    ensures all_in_place { AreLive ctx.new.tree built.now }
    ensures wired { OnOk result (Wires syntax.now 0 (length syntax.now.operations.items) ctx.old.tree ctx.new.tree
        built.now) }
{
    for number in 0..syntax.operations.len() {
        connect(ctx, built, number, &syntax.operations[number])?;
    }
    Ok(())
}

// One more at the end. Errors: allocation failure.
fn remember<T: Copy + Drop>(table: &mut Vec<T>, item: T) -> Result<(), NoMemory>
    ensures ok { OnOk result (table.new.items ≡ table.old.items ++ item ∷ []) }
    ensures err { OnErr result (table.new.items ≡ table.old.items) }
{
    match table.push(item) {
        Ok(()) => Ok(()),
        Err(_) => Err(NoMemory),
    }
}

// A new operation at the end of the block. Errors: allocation failure, which changes nothing.
fn append_operation(
    ctx: &mut Context,
    block: Ptr<BasicBlock>,
    head: Head,
    results: usize,
    regions: usize,
) -> Result<Ptr<Operation>, NoMemory>
    requires { IsBlock ctx.old.tree block }
    ensures key { IfOk result (λ op. op ≡ length ctx.old.tree.operations) }
    ensures ok { OnOk result (ctx.new.tree ≡ after_appending ctx.old.tree head results regions block) }
    ensures err { OnErr result (ctx.new ≡ ctx.old) }
{
    ctx.well_formed();
    let op = Operation::create(ctx, head, results, regions)?;
    IRRewriter::new().move_operation_to_end(ctx, op, block);
    Ok(op)
}

// The next operation of the text, at the end of its block, without operands and successors.
fn add_operation(
    alloc: Global,
    ctx: &mut Context,
    built: &mut BuiltTree,
    text: &OperationText,
) -> Result<(), NoMemory>
    requires block { text.now.block < length built.old.blocks.items }
    requires all_in_place { AreLive ctx.old.tree built.old }
    ensures continues { BuildingContinues ctx.old.tree built.old ctx.new.tree built.new }
    ensures all_in_place { AreLive ctx.new.tree built.new }
    ensures operations { OnOk result (length built.new.operations.items ≡ length built.old.operations.items + 1) }
    ensures blocks { built.new.blocks.items ≡ built.old.blocks.items }
    ensures regions { OnOk result (length built.new.regions.items ≡ length built.old.regions.items
        + text.now.regions) }
    ensures values { OnOk result (length built.new.values.items ≡ length built.old.values.items + text.now.results) }
    ensures laid { OnOk result (LaysOperation text.now ctx.old.tree built.old ctx.new.tree built.new) }
{
    ctx.well_formed();
    let head = head_of(alloc, text)?;
    let block = built.blocks[text.block];
    let op = append_operation(ctx, block, head, text.results, text.regions)?;
    ctx.well_formed();
    remember_operation(ctx, built, op)
}

// Remembers a new operation, its results and its regions.
#[inline(always)]
fn remember_operation(
    ctx: &Context,
    built: &mut BuiltTree,
    op: Ptr<Operation>,
) -> Result<(), NoMemory>
    requires { IsLive ctx.now.tree op }
    ensures blocks { built.new.blocks.items ≡ built.old.blocks.items }
    ensures operations { AddsOnly built.old.operations.items built.new.operations.items (op ∷ []) }
    ensures regions { AddsOnly built.old.regions.items built.new.regions.items (regions_of ctx.now.tree op) }
    ensures values { AddsOnly built.old.values.items built.new.values.items (results_of ctx.now.tree op) }
    ensures operation { OnOk result (built.new.operations.items ≡ built.old.operations.items ++ op ∷ []) }
    ensures kept_regions { KeepsEntries built.old.regions.items built.new.regions.items }
    ensures operation_count { OnOk result (length built.new.operations.items ≡ length built.old.operations.items + 1) }
    ensures region_count { OnOk result (length built.new.regions.items ≡ length built.old.regions.items + length
        (regions_of ctx.now.tree op)) }
    ensures value_count { OnOk result (length built.new.values.items ≡ length built.old.values.items + length
        (results_of ctx.now.tree op)) }
{
    remember(&mut built.operations, op)?;
    remember_results(ctx, &mut built.values, op)?;
    remember_regions(ctx, &mut built.regions, op)
}

#[inline(always)]
fn remember_results(
    ctx: &Context,
    values: &mut Vec<Value>,
    op: Ptr<Operation>,
) -> Result<(), NoMemory>
    requires { IsLive ctx.now.tree op }
    ensures added { AddsOnly values.old.items values.new.items (results_of ctx.now.tree op) }
    ensures count { OnOk result (length values.new.items ≡ length values.old.items + length
        (results_of ctx.now.tree op)) }
{
    for i in 0..op.num_result(ctx) {
        remember(values, op.get_result(ctx, i))?;
    }
    Ok(())
}

#[inline(always)]
fn remember_regions(
    ctx: &Context,
    regions: &mut Vec<Ptr<Region>>,
    op: Ptr<Operation>,
) -> Result<(), NoMemory>
    requires { IsLive ctx.now.tree op }
    ensures added { AddsOnly regions.old.items regions.new.items (regions_of ctx.now.tree op) }
    ensures kept { KeepsEntries regions.old.items regions.new.items }
    ensures count { OnOk result (length regions.new.items ≡ length regions.old.items + length
        (regions_of ctx.now.tree op)) }
{
    for i in 0..op.num_region(ctx) {
        remember(regions, op.get_region(ctx, i))?;
    }
    Ok(())
}

fn remember_arguments(
    ctx: &Context,
    values: &mut Vec<Value>,
    block: Ptr<BasicBlock>,
) -> Result<(), NoMemory>
    requires { IsBlock ctx.now.tree block }
    ensures added { AddsOnly values.old.items values.new.items (arguments_of ctx.now.tree block) }
    ensures count { OnOk result (length values.new.items ≡ length values.old.items + length
        (arguments_of ctx.now.tree block)) }
{
    for i in 0..block.num_argument(ctx) {
        remember(values, block.get_argument(ctx, i))?;
    }
    Ok(())
}

// The next block of the text, at the end of its region.
fn add_block(ctx: &mut Context, built: &mut BuiltTree, text: &BlockText) -> Result<(), NoMemory>
    requires region { text.now.region < length built.old.regions.items }
    requires all_in_place { AreLive ctx.old.tree built.old }
    ensures continues { BuildingContinues ctx.old.tree built.old ctx.new.tree built.new }
    ensures all_in_place { AreLive ctx.new.tree built.new }
    ensures operations { built.new.operations.items ≡ built.old.operations.items }
    ensures blocks { OnOk result (length built.new.blocks.items ≡ length built.old.blocks.items + 1) }
    ensures regions { built.new.regions.items ≡ built.old.regions.items }
    ensures values { OnOk result (length built.new.values.items ≡ length built.old.values.items + text.now.arguments) }
    ensures laid { OnOk result (LaysBlock text.now ctx.old.tree built.old ctx.new.tree built.new) }
{
    ctx.well_formed();
    let region = built.regions[text.region];
    let block = BasicBlock::create(ctx, region, text.arguments)?;
    ctx.well_formed();
    remember(&mut built.blocks, block)?;
    remember_arguments(ctx, &mut built.values, block)
}

// Gives the operation of this number its operands and successors.
fn connect(
    ctx: &mut Context,
    built: &BuiltTree,
    number: usize,
    text: &OperationText,
) -> Result<(), NoMemory>
    requires number { number < length built.now.operations.items }
    requires operands { AllBelow (length built.now.values.items) text.now.operands.items }
    requires successors { AllBelow (length built.now.blocks.items) text.now.successors.items }
    requires all_in_place { AreLive ctx.old.tree built.now }
    ensures continues { BuildingContinues ctx.old.tree built.now ctx.new.tree built.now }
    ensures all_in_place { AreLive ctx.new.tree built.now }
    ensures wired { OnOk result ((s : Syntax) → slice_get s.operations.items number ≡ Some text.now →
        Wires s number (number + 1) ctx.old.tree ctx.new.tree built.now) }
{
    let op = built.operations[number];
    add_operands(ctx, built, op, text.operands.as_slice())?;
    add_successors(ctx, built, op, &text.successors)
}

#[inline(always)]
fn add_operands(
    ctx: &mut Context,
    built: &BuiltTree,
    op: Ptr<Operation>,
    operands: &[usize],
) -> Result<(), NoMemory>
    requires live { IsLive ctx.old.tree op }
    requires operands { AllBelow (length built.now.values.items) operands.now }
    requires all_in_place { AreLive ctx.old.tree built.now }
    ensures continues { BuildingContinuesAt op ctx.old.tree built.now ctx.new.tree built.now }
    ensures all_in_place { AreLive ctx.new.tree built.now }
    ensures added { OnOk result (HasMoreOperands ctx.old.tree ctx.new.tree op (length operands.now)) }
{
    for number in operands {
        ctx.well_formed();
        Operation::push_operand(ctx, op, built.values[*number])?;
    }
    Ok(())
}

fn add_successors(
    ctx: &mut Context,
    built: &BuiltTree,
    op: Ptr<Operation>,
    successors: &[usize],
) -> Result<(), NoMemory>
    requires op { In op built.now.operations.items }
    requires successors { AllBelow (length built.now.blocks.items) successors.now }
    requires all_in_place { AreLive ctx.old.tree built.now }
    ensures continues { BuildingContinues ctx.old.tree built.now ctx.new.tree built.now }
    ensures all_in_place { AreLive ctx.new.tree built.now }
    ensures added { OnOk result (HasMoreSuccessors built.now ctx.old.tree ctx.new.tree op (length successors.now)
        successors.now) }
{
    for number in successors {
        ctx.well_formed();
        Operation::push_successor(ctx, op, built.blocks[*number])?;
    }
    Ok(())
}
