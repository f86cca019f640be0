//! The answer of a pass.
ghost use Rattle.std.specs.Prelude.{◌≡◌, [], is_ok, if◌then◌else◌, IsOkUnless};
ghost use Rattle.indexmap.specs.IndexSet.{insert_key};
ghost use Rattle.pliron_pass.specs.Answer.{has_changed, kept_kinds, IsNewAnswer};

use indexmap::IndexSet;
use pliron_core::IRStatus;
use pliron_laws::OptError;
use std::alloc::Global;
use std::hash::Hash;

/// Whether a pass changed the tree, and which kinds of analyses it preserves.
#[derive(Drop)]
pub struct PassResult<K: Eq + Hash> {
    pub ir_changed: IRStatus,
    pub(crate) preserved: IndexSet<K>,
}

impl<K: Copy + Eq + Hash> PassResult<K> {
    /// Unchanged, and nothing is preserved. Cost: constant.
    pub fn new(alloc: Global) -> Self
        ensures { IsNewAnswer result }
    {
        PassResult {
            ir_changed: IRStatus::Unchanged,
            preserved: IndexSet::new(alloc),
        }
    }

    /// Names a kind as preserved.
    ///
    /// Errors: allocation failure, which changes nothing. Cost: one look-up, amortised.
    pub fn set_preserved(&mut self, kind: K) -> Result<(), OptError>
        ensures kept { kept_kinds self.new ≡ (if is_ok result then insert_key K.eq (kept_kinds self.old) kind else
            kept_kinds self.old) }
        ensures changed { has_changed self.new ≡ has_changed self.old }
        ensures memory { IsOkUnless result OptError.Memory }
    {
        self.preserved.insert(kind)?;
        Ok(())
    }
}
