//! What operations that do the same have in common, as numbers.
ghost use Rattle.std.specs.Prelude.{◌≡◌, ◌++◌, ◌∷◌, [], pos, negsuc, ◌<ℤ◌, ◌≤ℤ◌, IfOk, OnOk, IsOkUnless, length};
ghost use Rattle.std.specs.Option.{option_to_list};
ghost use Rattle.pliron_core.specs.Tree.{IsLive, operands_of};
ghost use Rattle.pliron_opt_cse.specs.Keys.{attr_words, attrs_words, head_words, int_words, key_words, operand_words, size_words};
ghost use Rattle.pliron_laws.specs.EdgeChecks.{region_around};

use pliron_core::{AttrObj, Attrs, Context, Head, Operation, Ptr, Region};
use pliron_laws::OptError;
use pliron_laws::edges::region_of;
use std::alloc::Global;

// The size of a number that is not negative.
#[tactic(auto, using(std::proofs::lemmas::Int::ints))]
fn size_of(number: i128) -> u128
    requires { pos 0 ≤ℤ number }
    ensures { number ≡ pos result }
{
    number as u128
}

// The size of a negative number, less one.
#[tactic(auto, using(std::proofs::lemmas::Int::ints))]
fn size_below(number: i128) -> u128
    requires { number <ℤ pos 0 }
    ensures { number ≡ negsuc result }
{
    (-1 - number) as u128
}

// The two numbers of a size.
fn push_size(words: &mut Vec<u64>, size: u128) -> Result<(), OptError>
    ensures words { OnOk result (words.new.items ≡ words.old.items ++ size_words size) }
    ensures memory { IsOkUnless result OptError.Memory }
{
    words.push((size % 0x1_0000_0000_0000_0000) as u64)?;
    words.push((size / 0x1_0000_0000_0000_0000) as u64)?;
    Ok(())
}

// The numbers of an integer.
fn push_int(words: &mut Vec<u64>, number: i128) -> Result<(), OptError>
    ensures words { OnOk result (words.new.items ≡ words.old.items ++ int_words number) }
    ensures memory { IsOkUnless result OptError.Memory }
{
    if number < 0 {
        words.push(1)?;
        push_size(words, size_below(number))?;
        return Ok(());
    }
    words.push(0)?;
    push_size(words, size_of(number))?;
    Ok(())
}

// The bytes as numbers.
fn push_bytes(words: &mut Vec<u64>, bytes: &[u8]) -> Result<(), OptError>
    ensures words { OnOk result (words.new.items ≡ words.old.items ++ bytes.now) }
    ensures memory { IsOkUnless result OptError.Memory }
{
    for byte in bytes {
        words.push(u64::from(*byte))?;
    }
    Ok(())
}

// The numbers of a text: its length and its bytes.
fn push_text(words: &mut Vec<u64>, text: &str) -> Result<(), OptError>
    ensures words { OnOk result (words.new.items ≡ words.old.items ++ length text.now ∷ text.now) }
    ensures memory { IsOkUnless result OptError.Memory }
{
    words.push(text.len() as u64)?;
    push_bytes(words, text.as_bytes())?;
    Ok(())
}

// The numbers of an attribute.
fn push_attr(words: &mut Vec<u64>, attr: &AttrObj) -> Result<(), OptError>
    ensures words { OnOk result (words.new.items ≡ words.old.items ++ attr_words attr.now) }
    ensures memory { IsOkUnless result OptError.Memory }
{
    match attr {
        AttrObj::Int(number) => {
            words.push(0)?;
            push_int(words, *number)?;
            Ok(())
        }
        AttrObj::Text(text) => {
            words.push(1)?;
            push_text(words, text.as_str())?;
            Ok(())
        }
    }
}

// The numbers of attributes.
fn push_attrs(words: &mut Vec<u64>, attrs: &Attrs) -> Result<(), OptError>
    ensures words { OnOk result (words.new.items ≡ words.old.items ++ attrs_words attrs.now) }
    ensures memory { IsOkUnless result OptError.Memory }
{
    for i in 0..attrs.len() {
        push_attr(words, attrs.get(i))?;
    }
    Ok(())
}

// The numbers of a head.
fn push_head(words: &mut Vec<u64>, head: &Head) -> Result<(), OptError>
    ensures words { OnOk result (words.new.items ≡ words.old.items ++ head_words head.now) }
    ensures memory { IsOkUnless result OptError.Memory }
{
    words.push(u64::from(head.kind))?;
    words.push(u64::from(head.ssa))?;
    words.push(head.attrs.len() as u64)?;
    push_attrs(words, &head.attrs)?;
    Ok(())
}

/// The region that the operation is in. Asks that the operation is live. Takes no memory. Cost: constant.
pub fn region_of_operation(op: Ptr<Operation>, ctx: &Context) -> Option<Ptr<Region>>
    requires { IsLive ctx.now.tree op }
    ensures { result ≡ region_around ctx.now.tree op }
{
    let block = op.get_parent_block(ctx)?;
    Some(region_of(ctx, block))
}

// The number of the region that the operation is in.
fn push_region(words: &mut Vec<u64>, op: Ptr<Operation>, ctx: &Context) -> Result<(), OptError>
    requires { IsLive ctx.now.tree op }
    ensures words { OnOk result (words.new.items ≡ words.old.items ++ option_to_list (region_around ctx.now.tree op)) }
    ensures memory { IsOkUnless result OptError.Memory }
{
    match region_of_operation(op, ctx) {
        Some(region) => {
            words.push(region.key())?;
            Ok(())
        }
        None => Ok(()),
    }
}

// The numbers of the operands.
fn push_values(words: &mut Vec<u64>, op: Ptr<Operation>, ctx: &Context) -> Result<(), OptError>
    requires { IsLive ctx.now.tree op }
    ensures words { OnOk result (words.new.items ≡ words.old.items ++ operands_of ctx.now.tree op) }
    ensures memory { IsOkUnless result OptError.Memory }
{
    for i in 0..op.num_operand(ctx) {
        words.push(op.get_operand(ctx, i).key())?;
    }
    Ok(())
}

// The operands, or where there are none the region.
fn push_operands(words: &mut Vec<u64>, op: Ptr<Operation>, ctx: &Context) -> Result<(), OptError>
    requires { IsLive ctx.now.tree op }
    ensures words { OnOk result (words.new.items ≡ words.old.items ++ operand_words (operands_of ctx.now.tree op)
        (region_around ctx.now.tree op)) }
    ensures memory { IsOkUnless result OptError.Memory }
{
    let count = op.num_operand(ctx);
    words.push(count as u64)?;
    if count == 0 {
        push_region(words, op, ctx)?;
        return Ok(());
    }
    push_values(words, op, ctx)?;
    Ok(())
}

/// The numbers that operations which do the same have in common: the head, how many results, and the operands, or
/// the region where there are none.
///
/// Asks that the operation is live. Errors: allocation failure. Cost: the length of its attributes and operands.
pub fn key_of(alloc: Global, op: Ptr<Operation>, ctx: &Context) -> Result<Vec<u64>, OptError>
    requires { IsLive ctx.now.tree op }
    ensures words { IfOk result (λ key. key.items ≡ key_words ctx.now.tree op) }
    ensures memory { IsOkUnless result OptError.Memory }
{
    let mut words = Vec::new(alloc);
    push_head(&mut words, op.head(ctx))?;
    words.push(op.num_result(ctx) as u64)?;
    push_operands(&mut words, op, ctx)?;
    Ok(words)
}
