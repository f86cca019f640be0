//! Terms are put before an operation.
ghost use Rattle.std.specs.Prelude.{◌≡◌, ◌++◌, [], ℕ, IsSome, IsTrue, IfOk, OnOk, OnErr, IsOkUnless};
ghost use Rattle.pliron_core.specs.declared.rewriter.OpInsertionPoint.TheVariants.{BeforeOperation};
ghost use Rattle.pliron_core.specs.Tree.{Tree, parent_of};
ghost use Rattle.pliron_laws.specs.MaterialisedConstants.{IsRestored};
ghost use Rattle.pliron_laws.specs.Outcomes.{next_op};
ghost use Rattle.pliron_rewrite_rules.specs.Insertions.{with_operation};
ghost use Rattle.pliron_rewrite_rules.specs.declared.term.Term.TheVariants.{Make as MakeTerm};
ghost use Rattle.pliron_rewrite_rules.specs.RuleLaws.{IsAccepted};
ghost use Rattle.pliron_rewrite_rules.specs.Rewriting.{with_atom, atom_value, with_atoms, atom_values, with_term, term_value, IsRuleFor};
ghost use Rattle.pliron_rewrite_rules.specs.Putting.{atom_key, atom_keys, AreErasable};
ghost use Rattle.pliron_rewrite_rules.specs.Views.{Each};

use crate::rewrites::{insert_new_operation, put_operation_before};
use crate::{Atom, Atoms, HasRuleTables, Term};
use pliron_core::{AttrObj, Context, Head, Operation, Ptr, Rewriter, Value};
use pliron_laws::{Dialect, OptError, Room};
use std::alloc::Global;

// A new operation for the constant is put just before `op`, where so many were put before.
fn put_constant<D: Dialect, R: Rewriter + Room>(
    alloc: Global,
    op: Ptr<Operation>,
    constant: &AttrObj,
    more: usize,
    ctx: &mut Context,
    rewriter: &mut R,
) -> Result<Ptr<Operation>, OptError>
    requires placed { IsSome (parent_of ctx.old.tree op) }
    requires accepted { IsTrue (D.accepts constant.now) }
    ensures key { IfOk result (λ new. new ≡ next_op ctx.old.tree) }
    ensures ok { OnOk result (ctx.new.tree ≡ with_operation ctx.old.tree op (D.constant_head constant.now) []) }
    ensures refused { OnErr result (IsRestored ctx.old.tree ctx.new.tree) }
    ensures memory { IsOkUnless result OptError.Memory }
    ensures point { R.point rewriter.new ≡ BeforeOperation op }
{
    ctx.well_formed();
    rewriter.set_insertion_point_before_operation(op);
    // an insertion, that of the term's operation and a replacement; or erasing all on the way back
    rewriter.room(alloc, more.saturating_add(5))?;
    let Some(new) = D::materialize(alloc, constant, ctx)? else {
        unreachable!();
    };
    ctx.well_formed();
    insert_new_operation(new, ctx, rewriter)?;
    Ok(new)
}

// The value that stands for the atom: where that is a constant, the result of a new operation, just before `op`.
fn put_atom<D: Dialect, R: Rewriter + Room>(
    alloc: Global,
    op: Ptr<Operation>,
    atom: &Atom,
    made: &mut Vec<Ptr<Operation>>,
    ctx: &mut Context,
    rewriter: &mut R,
) -> Result<Value, OptError>
    requires placed { IsSome (parent_of ctx.old.tree op) }
    requires accepted { IsAccepted D.accepts atom.now }
    ensures value { IfOk result (λ value. value ≡ atom_value ctx.old.tree atom.now) }
    ensures tree { OnOk result (ctx.new.tree ≡ with_atom ⟦<D as HasRuleTables>⟧.rule_tables ctx.old.tree op
        atom.now) }
    ensures made { OnOk result (made.new.items ≡ made.old.items ++ atom_key ctx.old.tree atom.now) }
    ensures refused { OnErr result (IsRestored ctx.old.tree ctx.new.tree × (made.new.items ≡ made.old.items)) }
    ensures memory { IsOkUnless result OptError.Memory }
{
    match atom {
        Atom::Named(value) => Ok(*value),
        Atom::Constant(constant) => {
            made.reserve(1)?;
            let more = made.len();
            let new = put_constant::<D, R>(alloc, op, constant, more, ctx, rewriter)?;
            let value = new.get_result(ctx, 0);
            made.push_reserved(new);
            Ok(value)
        }
    }
}

// The values that stand for the atoms, in order.
fn put_atoms<D: Dialect, R: Rewriter + Room>(
    alloc: Global,
    op: Ptr<Operation>,
    atoms: &[Atom],
    made: &mut Vec<Ptr<Operation>>,
    ctx: &mut Context,
    rewriter: &mut R,
) -> Result<Vec<Value>, OptError>
    requires placed { IsSome (parent_of ctx.old.tree op) }
    requires accepted { Each (IsAccepted D.accepts) atoms.now }
    requires none { made.old.items ≡ [] }
    ensures values { IfOk result (λ values. values.items ≡ atom_values ⟦<D as HasRuleTables>⟧.rule_tables
        ctx.old.tree op atoms.now) }
    ensures tree { OnOk result (ctx.new.tree ≡ with_atoms ⟦<D as HasRuleTables>⟧.rule_tables ctx.old.tree op
        atoms.now) }
    ensures erasable { AreErasable ⟦<D as HasRuleTables>⟧.rule_tables op ctx.old.tree made.new.items
        ctx.new.tree }
    ensures memory { IsOkUnless result OptError.Memory }
{
    ctx.well_formed();
    let mut values = Vec::new(alloc);
    for atom in atoms {
        values.reserve(1)?;
        let value = put_atom::<D, R>(alloc, op, atom, made, ctx, rewriter)?;
        values.push_reserved(value);
    }
    Ok(values)
}

// The operations that were put before an operation for constants are erased again, the last one first. Takes no memory.
fn erase_all<D: Dialect, R: Rewriter>(
    mut made: Vec<Ptr<Operation>>,
    ctx: &mut Context,
    rewriter: &mut R,
)
    requires { (op : ℕ) × (t : Tree) × AreErasable ⟦<D as HasRuleTables>⟧.rule_tables op t made.items ctx.old.tree }
    ensures { (op : ℕ) (t : Tree) → AreErasable ⟦<D as HasRuleTables>⟧.rule_tables op t made.items ctx.old.tree
        → IsRestored t ctx.new.tree }
{
    while let Some(last) = made.pop() {
        ctx.well_formed();
        rewriter.erase_operation(ctx, last);
    }
}

// A new operation with this head, on the values that stand for the atoms, is put before `op`; its result.
fn put_made<D: Dialect, R: Rewriter + Room>(
    alloc: Global,
    op: Ptr<Operation>,
    head: Head,
    atoms: &Atoms,
    ctx: &mut Context,
    rewriter: &mut R,
) -> Result<Value, OptError>
    requires rule { (old : ℕ) × IsRuleFor ⟦<D as HasRuleTables>⟧.rule_tables ctx.old.tree op old
        (MakeTerm head atoms.now) }
    ensures value { IfOk result (λ value. value ≡ term_value ⟦<D as HasRuleTables>⟧.rule_tables ctx.old.tree op
        (MakeTerm head atoms.now)) }
    ensures ok { OnOk result (ctx.new.tree ≡ with_term ⟦<D as HasRuleTables>⟧.rule_tables ctx.old.tree op
        (MakeTerm head atoms.now)) }
    ensures refused { OnErr result (IsRestored ctx.old.tree ctx.new.tree) }
    ensures memory { IsOkUnless result OptError.Memory }
{
    ctx.well_formed();
    let mut made = Vec::new(alloc);
    let operands = match put_atoms::<D, R>(alloc, op, atoms.as_slice(), &mut made, ctx, rewriter) {
        Ok(operands) => operands,
        Err(refusal) => {
            erase_all::<D, R>(made, ctx, rewriter);
            return Err(refusal);
        }
    };
    match put_operation_before::<D, R>(alloc, op, head, &operands, ctx, rewriter) {
        Ok(new) => {
            let value = new.get_result(ctx, 0);
            Ok(value)
        }
        Err(refusal) => {
            erase_all::<D, R>(made, ctx, rewriter);
            Err(refusal)
        }
    }
}

/// The value of the term, which is put before `op`.
///
/// Asks that it is the term of a rule for what is seen of `op`. Errors: allocation failure, which leaves the tree as it
/// was but for erased handles. Cost: what the term makes.
pub fn put_term<D: Dialect, R: Rewriter + Room>(
    alloc: Global,
    op: Ptr<Operation>,
    term: Term,
    ctx: &mut Context,
    rewriter: &mut R,
) -> Result<Value, OptError>
    requires rule { (old : ℕ) × IsRuleFor ⟦<D as HasRuleTables>⟧.rule_tables ctx.old.tree op old term }
    ensures value { IfOk result (λ value. value ≡ term_value ⟦<D as HasRuleTables>⟧.rule_tables ctx.old.tree op term) }
    ensures ok { OnOk result (ctx.new.tree ≡ with_term ⟦<D as HasRuleTables>⟧.rule_tables ctx.old.tree op term) }
    ensures refused { OnErr result (IsRestored ctx.old.tree ctx.new.tree) }
    ensures memory { IsOkUnless result OptError.Memory }
{
    match term {
        Term::Atomic(atom) => {
            let mut made = Vec::new(alloc);
            put_atom::<D, R>(alloc, op, &atom, &mut made, ctx, rewriter)
        }
        Term::Make(head, atoms) => put_made::<D, R>(alloc, op, head, &atoms, ctx, rewriter),
    }
}
