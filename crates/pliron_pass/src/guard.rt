//! Passes under a guard.
ghost use Rattle.std.specs.Prelude.{◌≡◌, ℕ, Bool, true};
ghost use Rattle.pliron_core.specs.Tree.{Tree, IsLive, head_of};
ghost use Rattle.pliron_pass.specs.Combined.{Guards, guarded_name, has_passing_head};

use crate::kinds::AnalysisKind;
use crate::manager::AnalysisManager;
use crate::pass::Pass;
use crate::result::PassResult;
use crate::run::{ManagedPass, PassManager};
use pliron_core::{Context, Operation, Ptr};
use pliron_laws::{Dialect, Interface, OptError};
use std::alloc::Global;
use std::marker::PhantomData;
use std::ops::{Deref, DerefMut};

/// Where a pass may run.
pub trait Guard {
    ghost allows: { Self → ℕ → Tree → Bool };

    /// Whether a pass may run on the operation. Asks that the operation is live (`is_live` tests it).
    fn is_allowed(&self, op: Ptr<Operation>, ctx: &Context) -> bool
        requires { IsLive ctx.now.tree op }
        ensures { result ≡ allows self.now op ctx.now.tree };
}

/// Runs a pass where a guard allows it.
#[derive(Drop)]
pub struct GuardedPass<G: Guard, P: Pass> {
    guard: G,
    pass: P,
}

impl<G: Guard, P: Pass> GuardedPass<G, P> {
    /// The pass under the guard. Cost: constant.
    pub fn new(guard: G, pass: P) -> Self
        ensures guard { result.guard ≡ guard }
        ensures pass { result.pass ≡ pass }
    {
        GuardedPass { guard, pass }
    }
}

impl<G: Guard, P: Pass> Deref for GuardedPass<G, P> {
    type Target = P;

    ghost deref_gives = { λ guarded pass. pass ≡ guarded.pass };

    fn deref(&self) -> &P {
        &self.pass
    }
}

impl<G: Guard, P: Pass> DerefMut for GuardedPass<G, P> {
    ghost deref_mut_gives = { λ guarded pass. pass ≡ guarded.pass };

    fn deref_mut(&mut self) -> &mut P {
        &mut self.pass
    }
}

impl<G: Guard + Default, P: Pass + Default> Default for GuardedPass<G, P> {
    ghost is_default = { λ guarded. G.is_default guarded.guard × P.is_default guarded.pass };

    fn default() -> Self {
        GuardedPass {
            guard: G::default(),
            pass: P::default(),
        }
    }
}

/// Allows operations of a kind.
#[derive(Drop)]
pub struct OpGuard<D: Dialect> {
    kind: D::Kind,
}

impl<D: Dialect> OpGuard<D> {
    /// Allows operations of this kind. Cost: constant.
    pub fn new(kind: D::Kind) -> Self
        ensures { result.kind ≡ kind }
    {
        OpGuard { kind }
    }
}

impl<D: Dialect> Guard for OpGuard<D> {
    ghost allows = { λ g op t. has_passing_head (λ h. D.is_of_kind h g.kind) (head_of t op) };

    fn is_allowed(&self, op: Ptr<Operation>, ctx: &Context) -> bool {
        D::is_kind(op, ctx, self.kind)
    }
}

/// Allows operations that implement an interface.
#[derive(Drop)]
pub struct OpInterfaceGuard<D: Dialect> {
    interface: Interface,
    of: PhantomData<D>,
}

impl<D: Dialect> OpInterfaceGuard<D> {
    /// Allows operations that implement this interface. Cost: constant.
    pub fn new(interface: Interface) -> Self
        ensures { result.interface ≡ interface }
    {
        OpInterfaceGuard {
            interface,
            of: PhantomData,
        }
    }
}

impl<D: Dialect> Guard for OpInterfaceGuard<D> {
    ghost allows = { λ g op t. has_passing_head (λ h. D.has_interface h g.interface) (head_of t op) };

    fn is_allowed(&self, op: Ptr<Operation>, ctx: &Context) -> bool {
        D::implements(op, ctx, self.interface)
    }
}

/// Runs a pass on operations of a kind.
pub type OpPass<D, P> = GuardedPass<OpGuard<D>, P>;

/// Runs a pass on operations that implement an interface.
pub type OpInterfacePass<D, P> = GuardedPass<OpInterfaceGuard<D>, P>;

impl<G: Guard, P: Pass> Pass for GuardedPass<G, P> {
    type D = P::D;

    type E = P::E;

    ghost is_pass_manager = { λ p. true };

    ghost name = { λ p. guarded_name };

    ghost outcome = { λ p p' op s s' r. Guards G.allows ⟦<P as ManagedPass>⟧.runs p.guard p'.guard p.pass p'.pass
        op s s' r };

    fn name(&self) -> &str {
        "guarded_pass"
    }

    #[tactic(auto, using(pliron_theory::proofs::ChangeLemmas::change_refl))]
    fn run(
        &mut self,
        alloc: Global,
        op: Ptr<Operation>,
        ctx: &mut Context,
        analyses: &mut AnalysisManager<P::E>,
    ) -> Result<PassResult<<P::E as AnalysisKind>::Kind>, OptError> {
        if !self.guard.is_allowed(op, ctx) {
            return Ok(PassResult::new(alloc));
        }
        match PassManager::run_pass(&mut self.pass, alloc, op, ctx, analyses) {
            Ok(answer) => Ok(answer),
            Err(fault) => {
                analyses.clear();
                Err(fault)
            }
        }
    }

    fn is_pass_manager(&self) -> bool {
        true
    }
}
