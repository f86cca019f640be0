//! The cache of analyses.
ghost use Rattle.std.specs.Prelude.{◌≡◌, [], ℕ, List, Option, IfOk, OnOk, slice_get, option_map, option_copied, false, IsOkUnless};
ghost use Rattle.std.specs.List.{list_any};
ghost use Rattle.std.specs.Borrow.{sem};
ghost use Rattle.std.specs.Option.{option_copied_mut};
ghost use Rattle.pliron_pass.specs.Lending.{LendsData, LendsEntry};
ghost use Rattle.indexmap.specs.IndexMap.{get};
ghost use Rattle.pliron_pass.specs.Grown.{cached_at};
ghost use Rattle.pliron_pass.specs.Cache.{retained, cached_kinds, is_same_key, with_kind};
ghost use Rattle.pliron_pass.specs.Answer.{has_changed, kept_kinds};
ghost use Rattle.pliron_pass.specs.Config.{skips, verifies_before, verifies_after};

use crate::config::{PMConfig, PMData};
use crate::kinds::AnalysisKind;
use crate::result::PassResult;
use indexmap::IndexMap;
use pliron_core::{IRStatus, Operation, Ptr};
use pliron_laws::OptError;
use std::alloc::Global;

/// Keeps analyses by kind and operation, with what pass managers share.
#[derive(Drop)]
pub struct AnalysisManager<E: AnalysisKind> {
    pub pm_data: PMData,
    pub(crate) alloc: Global,
    pub(crate) cache: IndexMap<(E::Kind, Ptr<Operation>), E>,
}

impl<E: AnalysisKind> AnalysisManager<E> {
    /// Nothing is cached, verified, skipped or counted. Cost: constant.
    pub fn new(alloc: Global) -> Self
        ensures cache { result.cache.entries ≡ [] }
        ensures stats { result.pm_data.state.stats.entries ≡ [] }
        ensures count { result.pm_data.state.pass_run_count ≡ 0 }
        ensures skips { (n : List ℕ) → skips result.pm_data n ≡ false }
        ensures before { (n : List ℕ) → verifies_before result.pm_data n ≡ false }
        ensures after { (n : List ℕ) → verifies_after result.pm_data n ≡ false }
    {
        AnalysisManager {
            pm_data: PMData::new(alloc),
            alloc,
            cache: IndexMap::new(alloc),
        }
    }

    /// Sets the configuration. Cost: constant.
    pub fn set_config(&mut self, config: PMConfig)
        ensures config { self.new.pm_data.config ≡ config }
        ensures state { self.new.pm_data.state ≡ self.old.pm_data.state }
        ensures cache { self.new.cache.entries ≡ self.old.cache.entries }
    {
        self.pm_data.set_config(config);
    }

    /// What pass managers share. Cost: constant.
    pub fn pm_data(&self) -> &PMData
        ensures { result.now ≡ self.now.pm_data }
    {
        &self.pm_data
    }

    /// The same, to be written. Cost: constant.
    pub fn pm_data_mut(&mut self) -> &mut PMData
        ensures* writes_back { sem 𝓛 (LendsData E.row E.Kind.row E.Kind.Eq.own E.Kind.PartialEq E.Kind.Hash.own
            self.entry result) }
        ensures value { result.now ≡ self.old.pm_data }
    {
        &mut self.pm_data
    }

    /// Empties the cache. Cost: the number of entries.
    pub fn clear(&mut self)
    where
        E: Drop,
        ensures empty { self.new.cache.entries ≡ [] }
        ensures data { self.new.pm_data ≡ self.old.pm_data }
    {
        self.cache.clear();
    }

    /// After `Changed`, keeps exactly the entries whose kinds the answer preserves, in their order. Takes no
    /// memory. Cost: after `Changed` a look-up for each entry, and else constant.
    pub fn retain_preserved(&mut self, answer: &PassResult<E::Kind>)
    where
        E: Drop,
        ensures cache { self.new.cache.entries ≡ retained E.Kind.eq (has_changed answer.now) (kept_kinds answer.now)
            self.old.cache.entries }
        ensures data { self.new.pm_data ≡ self.old.pm_data }
    {
        match answer.ir_changed {
            IRStatus::Unchanged => {}
            IRStatus::Changed => {
                let preserved = &answer.preserved;
                self.cache.retain(
                    |key: &(E::Kind, Ptr<Operation>), value: &mut E| -> bool
                        ensures { (result ≡ list_any (E.Kind.eq key.now.0) preserved.entry.now.keys)
                            × (value.new ≡ value.old) }
                    { preserved.contains(&key.0) },
                );
            }
        }
    }

    /// The kind of the ith entry; `None` past the last one. Cost: constant.
    pub fn cached_kind(&self, i: usize) -> Option<E::Kind>
        ensures { result ≡ option_map (λ p. p.0.0) (slice_get self.now.cache.entries i) }
    {
        match self.cache.get_index(i) {
            Some((key, _)) => Some(key.0),
            None => None,
        }
    }

    /// The entry, where one is cached. Cost: one look-up.
    pub fn try_get_analysis(&self, kind: E::Kind, op: Ptr<Operation>) -> Option<&E>
        ensures { option_copied result ≡ get (is_same_key E.Kind.eq) self.now.cache (kind, op) }
    {
        self.cache.get(&(kind, op))
    }

    /// The entry, which can be written, where one is cached. Cost: one look-up.
    pub fn try_get_analysis_mut(&mut self, kind: E::Kind, op: Ptr<Operation>) -> Option<&mut E>
        ensures* writes_back { sem 𝓛 (LendsEntry E.row E.Kind.row E.Kind.Eq.own E.Kind.PartialEq E.Kind.Hash.own
            self.entry kind op result) }
        ensures value { option_copied_mut result ≡ cached_at E.Kind.eq self.old.cache.entries kind op }
    {
        self.cache.get_mut(&(kind, op))
    }

    fn keep_one(&self, i: usize, answer: &mut PassResult<E::Kind>) -> Result<(), OptError>
        ensures kept { OnOk result (kept_kinds answer.new ≡ with_kind E.Kind.eq (kept_kinds answer.old)
            (option_map (λ p. p.0.0) (slice_get self.now.cache.entries i))) }
        ensures changed { has_changed answer.new ≡ has_changed answer.old }
        ensures memory { IsOkUnless result OptError.Memory }
    {
        match self.cached_kind(i) {
            Some(kind) => answer.set_preserved(kind),
            None => Ok(()),
        }
    }

    // An answer that preserves all kinds that are cached.
    pub(crate) fn keep_all(&self, changed: IRStatus) -> Result<PassResult<E::Kind>, OptError>
        ensures changed { IfOk result (λ r. has_changed r ≡ changed) }
        ensures kept { IfOk result (λ r. kept_kinds r ≡ cached_kinds E.Kind.eq self.now.cache.entries) }
        ensures memory { IsOkUnless result OptError.Memory }
    {
        let mut result = PassResult::new(self.alloc);
        result.ir_changed = changed;
        for i in 0..self.cache.len() {
            self.keep_one(i, &mut result)?;
        }
        Ok(result)
    }
}
