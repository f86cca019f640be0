//! The functions with a name directly inside an operation.
ghost use Rattle.std.specs.Prelude.{◌≡◌, ◌≢◌, ◌++◌, ◌∷◌, [], ℕ, Some, true, false, map, slice_get, All, IfOk, IsOkUnless, MatchOption, MatchBool};
ghost use Rattle.pliron_core.specs.Tree.{IsLive};
ghost use Rattle.pliron_core.specs.Walks.{children};
ghost use Rattle.pliron_laws.specs.Datum.{datum_of};
ghost use Rattle.pliron_graph_calls.specs.Names.{attribute_of_name, names_of};
ghost use Rattle.pliron_graph_calls.specs.Namesakes.{HasNamesakes};
ghost use Rattle.pliron_graph_calls.specs.FunctionNames.{NamedFunctions, names_among, functions_among, AreNamedFunctions};

use crate::children::all_children;
use crate::function_name::{FunctionName, name_of_attribute};
use indexmap::IndexSet;
use pliron_core::{AttrObj, Context, Operation, Ptr};
use pliron_dialect_calls::InliningDialect;
use pliron_laws::OptError;
use std::alloc::{AllocError, Global};
use std::marker::Model;

/// The functions with a name directly inside an operation, as they stand there; no two have one name.
#[derive(Drop)]
pub struct FunctionTable {
    alloc: Global,
    names: IndexSet<FunctionName>,
    functions: Vec<Ptr<Operation>>,
}

impl Model for FunctionTable {
    ghost Value = { NamedFunctions };

    ghost view = { λ table.
        record { functions = table.functions.items; names = map attribute_of_name table.names.keys } };
}

impl FunctionTable {
    // Takes the operation, if it is a function with a name that none of those before has; `false` where one has it.
    // Errors: allocation failure, after which the table is of no use.
    fn add<D: InliningDialect>(
        &mut self,
        op: Ptr<Operation>,
        ctx: &Context,
    ) -> Result<bool, OptError>
        requires { IsLive ctx.now.tree op }
        ensures functions { IfOk result (λ is_new. is_new ≡ true → self.new.functions
            ≡ self.old.functions ++ functions_among D.convention ctx.now.tree (op ∷ [])) }
        ensures names { IfOk result (λ is_new. is_new ≡ true → names_of self.new.names
            ≡ names_of self.old.names ++ names_among D.convention ctx.now.tree (op ∷ [])) }
        ensures no_namesakes { IfOk result (λ is_new. is_new ≡ true → (HasNamesakes (names_of self.old.names) → ⊥)
            → HasNamesakes (names_of self.new.names) → ⊥) }
        ensures namesake { IfOk result (λ is_new. is_new ≡ false
            → HasNamesakes (names_of self.old.names ++ names_among D.convention ctx.now.tree (op ∷ []))) }
        ensures memory { IsOkUnless result OptError.Memory }
    {
        let Some(attr) = D::symbol_name(op, ctx) else {
            return Ok(true);
        };
        let name = name_of_attribute(self.alloc, attr)?;
        let (_, is_new) = self.names.insert_full(name)?;
        if is_new {
            self.functions.push(op)?;
        }
        Ok(is_new)
    }

    // Takes all of these operations that are functions with a name; `false` where two have one name.
    fn add_all<D: InliningDialect>(
        &mut self,
        ops: &[Ptr<Operation>],
        ctx: &Context,
    ) -> Result<bool, OptError>
        requires live { All (λ op. IsLive ctx.now.tree op) ops.now }
        requires none { self.old ≡ record { functions = []; names = [] } }
        ensures added { IfOk result (λ is_new. MatchBool is_new
            (AreNamedFunctions D.convention ctx.now.tree ops.now self.new)
            (HasNamesakes (names_among D.convention ctx.now.tree ops.now))) }
        ensures memory { IsOkUnless result OptError.Memory }
    {
        for op in ops {
            if !self.add::<D>(*op, ctx)? {
                return Ok(false);
            }
        }
        Ok(true)
    }

    /// The functions with a name directly inside the operation; `None` where two have one name.
    ///
    /// Asks that the operation is live (`is_live` tests it). Errors: allocation failure. Cost: linear in the operations
    /// directly inside, and in their names.
    pub fn of<D: InliningDialect>(
        alloc: Global,
        holder: Ptr<Operation>,
        ctx: &Context,
    ) -> Result<Option<Self>, OptError>
        requires { IsLive ctx.now.tree holder }
        ensures functions { IfOk result (λ found. MatchOption found
            (HasNamesakes (names_among D.convention ctx.now.tree (children ctx.now.tree holder)))
            (λ table. AreNamedFunctions D.convention ctx.now.tree (children ctx.now.tree holder) table)) }
        ensures memory { IsOkUnless result OptError.Memory }
    {
        let ops = all_children(alloc, holder, ctx)?;
        let mut table = FunctionTable {
            alloc,
            names: IndexSet::new(alloc),
            functions: Vec::new(alloc),
        };
        if table.add_all::<D>(&ops, ctx)? {
            Ok(Some(table))
        } else {
            Ok(None)
        }
    }

    /// The functions, as they stand. Cost: constant.
    pub fn functions(&self) -> &[Ptr<Operation>]
        ensures { result.now ≡ self.now.functions }
    {
        self.functions.as_slice()
    }

    /// The place among the functions of the one with this name, if there is one. Errors: allocation failure. Cost: the
    /// length of the name.
    pub fn find(&self, name: &AttrObj) -> Result<Option<usize>, AllocError>
        ensures { IfOk result (λ found. MatchOption found
            ((i : ℕ) → slice_get (names_of self.now.names) i ≢ Some (datum_of name.now))
            (λ i. slice_get (names_of self.now.names) i ≡ Some (datum_of name.now))) }
    {
        let name = name_of_attribute(self.alloc, name)?;
        Ok(self.names.get_index_of(&name))
    }
}
