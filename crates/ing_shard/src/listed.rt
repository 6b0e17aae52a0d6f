//! One stream of a shard whole.
ghost use Rattle.std.specs.Prelude.{◌≡◌, IfOk, IfSome, IsPermutation, map, slice_get};
ghost use Rattle.std.specs.Option.{option_map};
ghost use Rattle.ing_parts.specs.Parts.{found_among, found_at};
ghost use Rattle.ing_rows.specs.Rows.{StreamKey, count_of, rows_of};
ghost use Rattle.ing_shard.specs.Streams.{AreHeld, key_of, whole};

use crate::streams::Streams;
use ing_parts::{Part, StreamName};
use ing_rows::Tenant;
use ing_store::Receipt;
use std::alloc::{AllocError, Global};

/// A stream that is listed (own).
#[derive(Drop)]
pub struct Listed<R: Receipt> {
    /// Whose it is.
    pub tenant: Tenant,
    /// Its canonical name.
    pub name: StreamName,
    /// Where all its entries stand, whatever their stamps.
    pub parts: Vec<Part<R>>,
}

/// A stream by its name, and how many entries of it were accepted (own).
#[derive(Drop)]
pub struct StreamFront {
    /// Whose it is.
    pub tenant: Tenant,
    /// Its canonical name.
    pub name: StreamName,
    /// How many entries were accepted: they have the numbers below this.
    pub front: u64,
}

impl<R: Receipt> Streams<R> {
    /// The stream of this number; `None` where no stream has it.
    pub fn listed(&self, alloc: Global, number: usize) -> Result<Option<Listed<R>>, AllocError>
        requires { AreHeld self.now }
        ensures key { IfOk result (λ o.
            option_map (λ l. record { tenant = l.tenant; name = l.name }) o
            ≡ slice_get (map key_of self.now.list.items) number) }
        ensures rows { IfOk result (λ o. IfSome o (λ l.
            let s : StreamKey = record { tenant = l.tenant; name = l.name } in
            IsPermutation (found_among l.parts.items)
            (map found_at (rows_of s (whole self.now.list.items).rows)))) }
    {
        match self.list.get(number) {
            Some(stream) => Ok(Some(stream.list(alloc)?)),
            None => Ok(None),
        }
    }

    /// The front of the stream of this number; `None` where no stream has it.
    pub fn front_of(&self, alloc: Global, number: usize) -> Result<Option<StreamFront>, AllocError>
        requires { AreHeld self.now }
        ensures key { IfOk result (λ o.
            option_map (λ f. record { tenant = f.tenant; name = f.name }) o
            ≡ slice_get (map key_of self.now.list.items) number) }
        ensures front { IfOk result (λ o. IfSome o (λ f. f.front
            ≡ count_of (whole self.now.list.items).rows (record { tenant = f.tenant; name = f.name }))) }
    {
        match self.list.get(number) {
            Some(stream) => Ok(Some(stream.front(alloc)?)),
            None => Ok(None),
        }
    }
}
