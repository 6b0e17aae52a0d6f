//! A mark of the slow program.
ghost use Rattle.std.specs.Prelude.{◌≡◌, Some, if◌then◌else◌, is_some, reverse};
ghost use Rattle.ing_rows.specs.Rows.{is_of_chunk, stream};
ghost use Rattle.ing_rows.specs.Steps.{is_growing, is_mark_of, seal_of, seal_mark};
ghost use Rattle.ing_plain.specs.Plain.{reason_for};

use super::cause::Cause;
use super::key::Key;
use super::row::PlainRow;
use ing_rows::{SealReason, Tenant};
use std::marker::Model;

/// A chunk that is not stored: a mark of the model.
#[derive(Debug, Drop)]
pub struct PlainMark {
    pub stream: Key,
    pub chunk: u64,
    pub last_update: u64,
    pub reason: Option<SealReason>,
}

impl Model for PlainMark {
    ghost use Rattle.ing_rows.specs.Rows.{Mark};

    ghost Value = { Mark };

    ghost view = { λ mark. record {
      stream = mark.stream;
      chunk = mark.chunk;
      last_update = mark.last_update;
      reason = mark.reason;
    } };
}

impl PlainMark {
    /// Whether it is that of the stream's growing chunk.
    pub fn is_growing(&self, tenant: &Tenant, name: &str) -> bool
        ensures { result ≡ is_growing (stream tenant.now name.now) self.now }
    {
        self.stream.is(tenant, name) && self.reason.is_none()
    }

    /// Whether it is that of this chunk of the stream.
    pub fn is_of(&self, tenant: &Tenant, name: &str, chunk: u64) -> bool
        ensures { result ≡ is_mark_of (stream tenant.now name.now) chunk self.now }
    {
        self.stream.is(tenant, name) && self.chunk == chunk
    }

    /// Where it is that of the stream's growing chunk, the chunk was updated at this time.
    pub fn update(&mut self, tenant: &Tenant, name: &str, now: u64)
        ensures { let s = stream tenant.now name.now in
            self.new
            ≡ (if is_growing s self.old then record self.old { last_update = now } else self.old) }
    {
        if self.is_growing(tenant, name) {
            self.last_update = now;
        }
    }

    /// Where it is that of this chunk of the stream, the chunk takes no more entries, for this reason.
    pub fn seal(&mut self, tenant: &Tenant, name: &str, chunk: u64, reason: SealReason)
        ensures { let s = stream tenant.now name.now in
            self.new ≡ (if is_mark_of s chunk self.old
            then record self.old { reason = Some reason } else self.old) }
    {
        if self.is_of(tenant, name, chunk) {
            self.reason = Some(reason);
        }
    }

    /// Whether the row is of its chunk.
    pub fn has(&self, row: &PlainRow) -> bool
        ensures { result ≡ is_of_chunk self.now.stream self.now.chunk row.now }
    {
        row.stream.is_same(&self.stream) && row.chunk == self.chunk
    }

    /// The reason for which its chunk is sealed, where it grows.
    pub fn new_reason(&self, rows: &[PlainRow], cause: Cause) -> Option<SealReason>
        ensures { result ≡ seal_of (reason_for cause (reverse rows.now)) self.now }
    {
        if self.reason.is_none() {
            cause.reason(rows, self)
        } else {
            None
        }
    }

    /// Where its chunk grows and there is a reason to seal it, it takes no more entries. Says whether it was so.
    pub fn seal_for(&mut self, rows: &[PlainRow], cause: Cause) -> bool
        ensures mark { self.new ≡ seal_mark (reason_for cause (reverse rows.now)) self.old }
        ensures told { let why = reason_for cause (reverse rows.now) in
            result ≡ is_some (seal_of why self.old) }
    {
        match self.new_reason(rows, cause) {
            Some(reason) => {
                self.reason = Some(reason);
                true
            }
            None => false,
        }
    }
}
