//! What a shard keeps tenant by tenant: the numbers of the tenant's streams, and sums over them.
ghost use Rattle.std.specs.Prelude.{◌≡◌, ◌&&◌, ◌<◌, ◌++◌, [], ◌∷◌, All, Bool, List, ℕ, IfOk, OnOk, OnErr, None, Some, bytes_eq, if◌then◌else◌, is_some, true};
ghost use Rattle.std.specs.List.Sorted.{IsStrictlyIncreasing};
ghost use Rattle.ing_labels.specs.Canonical.{canonical_of};
ghost use Rattle.ing_labels.specs.Labels.{IsLabelSet};
ghost use Rattle.ing_postings.specs.Streams.{numbers_of, selected};
ghost use Rattle.ing_shard.specs.Names.{find_in};
ghost use Rattle.ing_shard.specs.Tenants.{find_of, kept_of, posted_of, is_known, listed_as};
ghost use Rattle.ing_rows.specs.Gauges.{no_gauges};

use crate::names::StreamNames;
use ing_labels::{Labels, Selector};
use ing_postings::{Postings, StreamNo};
use ing_rows::Gauges;
use std::alloc::{AllocError, Global};
use std::collections::BTreeMap;

/// One tenant: the number of each of its streams by the canonical name, its streams by their labels, and the
/// sums over them.
#[derive(Debug, Drop)]
pub struct TenantStreams {
    pub by_name: StreamNames,
    pub postings: Postings,
    pub kept: Gauges,
}

/// The tenants of a shard. The map is ordered, so that no choice of tenants makes a look-up slow.
#[derive(Debug, Drop)]
pub struct Tenants {
    pub by_id: BTreeMap<String, TenantStreams>,
}

impl TenantStreams {
    /// A tenant without streams.
    fn new(alloc: Global) -> TenantStreams
        ensures names { (n : List ℕ) → find_in result.by_name n ≡ None }
        ensures posted { result.postings ≡ [] }
        ensures kept { result.kept ≡ no_gauges }
    {
        TenantStreams {
            by_name: StreamNames::new(alloc),
            postings: Postings::new(alloc),
            kept: Gauges::NONE,
        }
    }

    /// Lists a stream that is not listed, under a number above those of the listed ones. All or nothing.
    fn list(&mut self, alloc: Global, labels: &Labels, number: usize) -> Result<(), AllocError>
        requires free { find_in self.old.by_name (canonical_of labels.now) ≡ None }
        requires above { All (λ s. s.number < number) self.old.postings }
        ensures names { OnOk result ((n : List ℕ) → find_in self.new.by_name n ≡
            (if bytes_eq (canonical_of labels.now) n then Some number
            else find_in self.old.by_name n)) }
        ensures posted { OnOk result (self.new.postings ≡
            self.old.postings ++ listed_as number labels.now ∷ []) }
        ensures err_names { OnErr result ((n : List ℕ) →
            find_in self.new.by_name n ≡ find_in self.old.by_name n) }
        ensures err_posted { OnErr result (self.new.postings ≡ self.old.postings) }
        ensures kept { self.new.kept ≡ self.old.kept }
        // Each `Labels` is a stream's.
        ensures label_set { OnOk result (IsLabelSet labels.now) }
    {
        self.by_name.insert(alloc, labels, number)?;
        if let Err(fault) = self.postings.add(labels, StreamNo::new(number as u64)) {
            self.by_name.remove(labels.name());
            return Err(fault);
        }
        Ok(())
    }
}

impl Tenants {
    /// No tenant.
    pub fn new(alloc: Global) -> Tenants
        ensures find { (t n : List ℕ) → find_of result t n ≡ None }
        ensures kept { (t : List ℕ) → kept_of result t ≡ no_gauges }
        ensures posted { (t : List ℕ) → posted_of result t ≡ [] }
    {
        Tenants {
            by_id: BTreeMap::new(alloc),
        }
    }

    /// The number of a stream, by its tenant and its canonical name.
    pub fn find(&self, tenant: &str, name: &str) -> Option<usize>
        ensures { result ≡ find_of self.now tenant.now name.now }
    {
        let streams = self.by_id.get(tenant)?;
        streams.by_name.find(name)
    }

    /// The sums over a tenant's streams.
    pub fn kept(&self, tenant: &str) -> Gauges
        ensures { result ≡ kept_of self.now tenant.now }
    {
        match self.by_id.get(tenant) {
            Some(streams) => streams.kept,
            None => Gauges::NONE,
        }
    }

    /// The numbers of a tenant's streams whose labels the selector matches, in rising order.
    pub fn select(
        &self,
        alloc: Global,
        tenant: &str,
        selector: &Selector,
    ) -> Result<Vec<StreamNo>, AllocError>
        ensures found { IfOk result (λ found. found.items ≡
            numbers_of (selected selector.now (posted_of self.now tenant.now))) }
        ensures rising { IfOk result (λ found. IsStrictlyIncreasing found.items) }
    {
        match self.by_id.get(tenant) {
            Some(streams) => streams.postings.select(alloc, selector),
            None => Ok(Vec::new(alloc)),
        }
    }

    /// Lists a tenant's stream that is not listed, under a number above those of the tenant's listed ones.
    /// After an error each stream is found as before, and the label index of each tenant lists what it listed.
    pub fn add(
        &mut self,
        alloc: Global,
        tenant: &str,
        labels: &Labels,
        number: usize,
    ) -> Result<(), AllocError>
        requires free { find_of self.old tenant.now (canonical_of labels.now) ≡ None }
        requires above { All (λ s. s.number < number) (posted_of self.old tenant.now) }
        ensures find { OnOk result ((t n : List ℕ) → find_of self.new t n ≡
            (if bytes_eq tenant.now t && bytes_eq (canonical_of labels.now) n then Some number
            else find_of self.old t n)) }
        ensures known { OnOk result (is_known self.new tenant.now ≡ true) }
        ensures posted { OnOk result ((t : List ℕ) → posted_of self.new t ≡
            (if bytes_eq tenant.now t then posted_of self.old t ++ listed_as number labels.now ∷ []
            else posted_of self.old t)) }
        ensures err { OnErr result ((t n : List ℕ) → find_of self.new t n ≡ find_of self.old t n) }
        ensures err_posted { OnErr result ((t : List ℕ) →
            posted_of self.new t ≡ posted_of self.old t) }
        ensures stay { (t : List ℕ) → is_known self.old t ≡ true → is_known self.new t ≡ true }
        ensures kept { (t : List ℕ) → kept_of self.new t ≡ kept_of self.old t }
        // Each `Labels` is a stream's.
        ensures label_set { OnOk result (IsLabelSet labels.now) }
    {
        if let Some(streams) = self.by_id.get_mut(tenant) {
            return streams.list(alloc, labels, number);
        }
        let id = String::from_str(alloc, tenant)?;
        let mut streams = TenantStreams::new(alloc);
        streams.list(alloc, labels, number)?;
        self.by_id.insert(id, streams)?;
        Ok(())
    }

    /// The sums over a listed tenant's streams are these now.
    pub fn keep(&mut self, tenant: &str, kept: Gauges)
        requires { is_known self.old tenant.now ≡ true }
        ensures find { (t n : List ℕ) → find_of self.new t n ≡ find_of self.old t n }
        ensures known { (t : List ℕ) → is_known self.new t ≡ is_known self.old t }
        ensures kept { (t : List ℕ) →
            kept_of self.new t ≡ (if bytes_eq tenant.now t then kept else kept_of self.old t) }
        ensures posted { (t : List ℕ) → posted_of self.new t ≡ posted_of self.old t }
    {
        if let Some(streams) = self.by_id.get_mut(tenant) {
            streams.kept = kept;
        }
    }
}
