//! Catalogs: what the streams of a tenant tell of themselves.
ghost use Rattle.std.specs.Prelude.{◌≡◌, ℕ, ◌<◌, List, [], not, ◌&&◌, ◌||◌, ◌==◌, IfOk, OnOk, Some, bytes_eq, length, map, slice_get, string_bytes, vec_len};
ghost use Rattle.std.specs.FinMap.{entries};
ghost use Rattle.std.specs.List.Sorted.{IsStrictlySortedBy};
ghost use Rattle.ing_labels.specs.Labels.{IsLabelSet, is_named, name_order};
ghost use Rattle.ing_labels.specs.Selectors.{selects};
ghost use Rattle.ing_rows.specs.Facets.{facet_view};
ghost use Rattle.ing_rows.specs.Rows.{count_of};
ghost use Rattle.ing_shard.specs.Catalog.{AddsCatalog, asked_view, is_among, matchers_in, tells};
ghost use Rattle.ing_shard.specs.Contents.{stream_of};
ghost use Rattle.ing_shard.specs.Streams.{AreHeld, key_of, whole};

use crate::streams::Streams;
use ing_labels::{Labels, Selector};
use ing_rows::{Facet, Tenant};
use ing_store::Receipt;
use std::alloc::{AllocError, Global};
use std::collections::BTreeSet;
use std::marker::Model;

/// What is asked of streams: this facet of those of a tenant whose labels the selector matches, or of all of them.
#[derive(Clone, Copy)]
pub struct Asked<'a> {
    /// Whose streams are asked.
    pub tenant: &'a Tenant,
    /// Which of them are, where not all.
    pub selector: Option<&'a Selector>,
    /// What of them is listed.
    pub facet: Facet<'a>,
}

/// A stream that is listed, where it lies: its labels, and how many entries were accepted.
#[derive(Clone, Copy)]
pub(crate) struct Seen<'a> {
    pub(crate) tenant: &'a Tenant,
    pub(crate) labels: &'a Labels,
    pub(crate) front: u64,
}

impl Seen<'_> {
    /// Whether it has an entry, and is asked.
    fn is_asked(&self, asked: &Asked<'_>) -> bool
        ensures { let of = asked_view asked.now in
            result ≡ (not (self.now.front == 0)
            && (bytes_eq self.now.tenant.now of.tenant && selects of.ms self.now.labels.now)) }
    {
        self.front != 0
            && self.tenant.as_str() == asked.tenant.as_str()
            && is_selected(asked.selector, self.labels)
    }
}

/// Whether the selector matches these labels, where there is one.
fn is_selected(selector: Option<&Selector>, labels: &Labels) -> bool
    ensures { result ≡ selects (matchers_in selector.entry) labels.now }
{
    match selector {
        Some(selector) => selector.matches(labels),
        None => true,
    }
}

/// Texts, each once, in byte order. Contracts see their list. (Own.)
#[derive(Drop)]
pub struct Texts {
    set: BTreeSet<String>,
}

impl Model for Texts {
    ghost use Rattle.std.specs.Prelude.{List, ℕ, map, string_bytes};

    ghost Value = { List (List ℕ) };

    ghost view = { λ texts. map string_bytes texts.set.keys };
}

impl Texts {
    /// No text. Takes no memory.
    pub fn new(alloc: Global) -> Texts
        ensures { result ≡ [] }
    {
        Texts {
            set: BTreeSet::new(alloc),
        }
    }

    /// Adds a copy of a text, where it is not among them. `AllocError` where memory runs out.
    fn insert(&mut self, alloc: Global, text: &str) -> Result<(), AllocError>
        ensures { OnOk result ((t : List ℕ) →
            is_among t self.new ≡ (bytes_eq text.now t || is_among t self.old)) }
    {
        if self.set.contains(text) {
            return Ok(());
        }
        self.set.insert(String::from_str(alloc, text)?)?;
        Ok(())
    }

    /// The texts, in byte order, each once. `AllocError` where memory runs out.
    pub fn into_vec(self, alloc: Global) -> Result<Vec<String>, AllocError>
        ensures same { IfOk result (λ list. map string_bytes list.items ≡ self) }
        ensures rising { OnOk result (IsStrictlySortedBy name_order self) }
    {
        let Texts { set } = self;
        let mut list = Vec::with_capacity(alloc, set.len())?;
        for text in set {
            list.push(text)?;
        }
        Ok(list)
    }

    /// Adds what labels tell. `AllocError` where memory runs out.
    fn add(&mut self, alloc: Global, facet: Facet<'_>, labels: &Labels) -> Result<(), AllocError>
        ensures { OnOk result ((t : List ℕ) →
            is_among t self.new ≡ (tells (facet_view facet.entry) labels.now t || is_among t self.old)) }
    {
        match facet {
            Facet::Series => self.insert(alloc, labels.name()),
            Facet::Labels => self.add_names(alloc, labels),
            Facet::Values(name) => self.add_value(alloc, labels.value(name)),
        }
    }

    /// Adds the names of labels.
    fn add_names(&mut self, alloc: Global, labels: &Labels) -> Result<(), AllocError>
        ensures { OnOk result ((t : List ℕ) →
            is_among t self.new ≡ (is_named t (entries labels.now) || is_among t self.old)) }
    {
        for (name, _) in labels.pairs() {
            self.insert(alloc, name)?;
        }
        Ok(())
    }

    /// Adds the value of a label; an absent one has none.
    fn add_value(&mut self, alloc: Global, value: &str) -> Result<(), AllocError>
        ensures { OnOk result ((t : List ℕ) →
            is_among t self.new ≡ ((bytes_eq value.now t && not (length t == 0)) || is_among t self.old)) }
    {
        if value.is_empty() {
            return Ok(());
        }
        self.insert(alloc, value)
    }
}

impl<R: Receipt> Streams<R> {
    /// The stream of this number, where it lies.
    fn seen(&self, number: usize) -> Seen<'_>
        requires held { AreHeld self.now }
        requires listed { number < vec_len self.now.list }
        ensures key { slice_get (map key_of self.now.list.items) number
            ≡ Some (stream_of result.tenant.now result.labels.now) }
        ensures labels { IsLabelSet result.labels.now }
        ensures front { result.front ≡ count_of (whole self.now.list.items).rows
            (stream_of result.tenant.now result.labels.now) }
    {
        self.list[number].seen()
    }

    /// Adds to texts what those streams tell that are asked and have an entry: each stream is looked at once.
    pub(crate) fn add_catalog(
        &self,
        alloc: Global,
        asked: &Asked<'_>,
        texts: &mut Texts,
    ) -> Result<(), AllocError>
        requires { AreHeld self.now }
        ensures { OnOk result
            (AddsCatalog (asked_view asked.now) (whole self.now.list.items).rows texts.old texts.new) }
    {
        for number in 0..self.list.len() {
            let seen = self.seen(number);
            if seen.is_asked(asked) {
                texts.add(alloc, asked.facet, seen.labels)?;
            }
        }
        Ok(())
    }
}
