//! Calls of the functions of a table.
ghost use Rattle.std.specs.Prelude.{◌≡◌, All, IfOk, IsOkUnless, MatchOption};
ghost use Rattle.pliron_core.specs.Tree.{IsLive};
ghost use Rattle.pliron_core.specs.Walks.{children};
ghost use Rattle.pliron_graph_calls.specs.Names.{names_of};
ghost use Rattle.pliron_graph_calls.specs.CallSites.{CallsNone, IsCallSite, AreCallSites};

use crate::children::all_children;
use crate::function_table::FunctionTable;
use pliron_core::{Context, Operation, Ptr};
use pliron_dialect_calls::InliningDialect;
use pliron_laws::OptError;
use std::alloc::{AllocError, Global};

/// A call by name of a function of a table.
#[derive(Clone, Copy, Debug, PartialEq, Eq, Drop)]
pub struct CallSite {
    pub call: Ptr<Operation>,
    /// The place of the callee among the functions of the table.
    pub callee: usize,
}

impl FunctionTable {
    // The call that the operation is, if it calls a function of the table.
    fn call_site<D: InliningDialect>(
        &self,
        op: Ptr<Operation>,
        ctx: &Context,
    ) -> Result<Option<CallSite>, AllocError>
        requires { IsLive ctx.now.tree op }
        ensures { IfOk result (λ found. MatchOption found
            (CallsNone D.callee ctx.now.tree (names_of self.now.names) op)
            (λ site. IsCallSite D.callee ctx.now.tree (names_of self.now.names) op site)) }
    {
        let Some(name) = D::callee_name(op, ctx) else {
            return Ok(None);
        };
        match self.find(name)? {
            Some(callee) => Ok(Some(CallSite { call: op, callee })),
            None => Ok(None),
        }
    }

    // The calls of functions of the table among these operations.
    fn call_sites_among<D: InliningDialect>(
        &self,
        alloc: Global,
        ops: &[Ptr<Operation>],
        ctx: &Context,
    ) -> Result<Vec<CallSite>, OptError>
        requires { All (λ op. IsLive ctx.now.tree op) ops.now }
        ensures calls { IfOk result (λ sites. AreCallSites D.callee ctx.now.tree (names_of self.now.names) ops.now
            sites.items) }
        ensures memory { IsOkUnless result OptError.Memory }
    {
        let mut sites = Vec::new(alloc);
        for op in ops {
            if let Some(site) = self.call_site::<D>(*op, ctx)? {
                sites.push(site)?;
            }
        }
        Ok(sites)
    }

    /// The calls by name of functions of the table among the operations directly inside this one, in the order of its
    /// regions, their blocks and their bodies.
    ///
    /// Asks that the operation is live (`is_live` tests it). Errors: allocation failure. Cost: linear in the operations
    /// directly inside, and in the names that they call.
    pub fn call_sites<D: InliningDialect>(
        &self,
        alloc: Global,
        function: Ptr<Operation>,
        ctx: &Context,
    ) -> Result<Vec<CallSite>, OptError>
        requires { IsLive ctx.now.tree function }
        ensures calls { IfOk result (λ sites. AreCallSites D.callee ctx.now.tree (names_of self.now.names)
            (children ctx.now.tree function) sites.items) }
        ensures memory { IsOkUnless result OptError.Memory }
    {
        let ops = all_children(alloc, function, ctx)?;
        self.call_sites_among::<D>(alloc, &ops, ctx)
    }
}
