//! A row of the slow program.
ghost use Rattle.std.specs.Prelude.{◌≡◌, ◌==◌, ◌&&◌, ◌-◌, ◌≤◌, ◌^◌, bytes_eq, if◌then◌else◌};
ghost use Rattle.ing_rows.specs.Rows.{same_stream, is_of_chunk, is_head, is_block, size_of, stream};
ghost use Rattle.ing_rows.specs.Steps.{in_head};
ghost use Rattle.ing_plain.specs.Plain.{at_kind};
ghost use Rattle.ing_rows.specs.declared.place.Place.TheVariants.{Block};

use super::key::Key;
use super::measure::Kind;
use ing_rows::{Entry, Place, Tenant};
use std::marker::Model;

/// What an entry counts against sizes beside its line, in bytes (own).
const ENTRY_SIZE: u64 = 16;

/// An accepted entry: a row of the model.
#[derive(Debug, Drop)]
pub struct PlainRow {
    pub stream: Key,
    pub number: u64,
    pub entry: Entry,
    pub chunk: u64,
    pub block: u64,
    pub place: Place,
}

impl Model for PlainRow {
    ghost use Rattle.ing_rows.specs.Rows.{Row};

    ghost Value = { Row };

    ghost view = { λ row. record {
      stream = row.stream;
      number = row.number;
      entry = row.entry;
      chunk = row.chunk;
      block = row.block;
      place = row.place;
    } };
}

impl PlainRow {
    /// Whether it is of this stream.
    pub fn is_of(&self, tenant: &Tenant, name: &str) -> bool
        ensures { result ≡ same_stream self.now.stream (stream tenant.now name.now) }
    {
        self.stream.is(tenant, name)
    }

    /// Whether it is the first entry of its stream.
    pub fn is_first(&self) -> bool
        ensures { result ≡ (self.now.number == 0) }
    {
        self.number == 0
    }

    /// Whether it is the first entry of a stream of this tenant.
    pub fn is_first_of(&self, tenant: &Tenant) -> bool
        ensures { result ≡ (bytes_eq self.now.stream.tenant tenant.now && (self.now.number == 0)) }
    {
        self.stream.is_of_tenant(tenant) && self.number == 0
    }

    /// Whether a chunk of this stream begins with it.
    pub fn is_chunk_start(&self, tenant: &Tenant, name: &str) -> bool
        ensures { result ≡ (same_stream self.now.stream (stream tenant.now name.now)
            && (self.now.number == self.now.chunk)) }
    {
        self.is_of(tenant, name) && self.number == self.chunk
    }

    /// Whether it is of this chunk of this stream.
    pub fn is_of_chunk(&self, tenant: &Tenant, name: &str, chunk: u64) -> bool
        ensures { result ≡ is_of_chunk (stream tenant.now name.now) chunk self.now }
    {
        self.is_of(tenant, name) && self.chunk == chunk
    }

    /// Whether it is in the head of this chunk.
    pub fn is_in_head(&self, tenant: &Tenant, name: &str, chunk: u64) -> bool
        ensures { result ≡ in_head (stream tenant.now name.now) chunk self.now }
    {
        self.is_of_chunk(tenant, name, chunk) && matches!(self.place, Place::Head)
    }

    /// Whether it is in the head of its chunk.
    pub fn is_in_any_head(&self) -> bool
        ensures { result ≡ is_head self.now.place }
    {
        matches!(self.place, Place::Head)
    }

    /// It is in a closed block from now on.
    pub fn go_to_block(&mut self)
        ensures { self.new ≡ record self.old { place = Block } }
    {
        self.place = Place::Block;
    }

    /// Whether it is in a closed block.
    pub fn is_in_block(&self) -> bool
        ensures { result ≡ is_block self.now.place }
    {
        matches!(self.place, Place::Block)
    }

    /// Whether it is the tenant's, at a place of this kind.
    pub fn is_at(&self, tenant: &Tenant, kind: Kind) -> bool
        ensures { result
            ≡ (bytes_eq self.now.stream.tenant tenant.now && at_kind kind self.now.place) }
    {
        self.stream.is_of_tenant(tenant) && kind.has(self.place)
    }

    /// What its entry counts against sizes, in bytes.
    pub fn size(&self) -> u128
        ensures size { result ≡ size_of self.now.entry }
        ensures small { result ≤ 2 ^ 65 }
    {
        u128::from(ENTRY_SIZE) + self.entry.line.len() as u128
    }

    /// What is left of a size when its own is taken away, and 0 where that is more.
    pub fn taken_from(&self, size: u64) -> u64
        ensures { result ≡ size - size_of self.now.entry }
    {
        size.saturating_sub(ENTRY_SIZE)
            .saturating_sub(self.entry.line.len() as u64)
    }

    /// Where it is in the head of this chunk, the head is closed into a block.
    pub fn close(&mut self, tenant: &Tenant, name: &str, chunk: u64)
        ensures { let s = stream tenant.now name.now in
            self.new
            ≡ (if in_head s chunk self.old then record self.old { place = Block } else self.old) }
    {
        if self.is_in_head(tenant, name, chunk) {
            self.place = Place::Block;
        }
    }
}
