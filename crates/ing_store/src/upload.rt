//! Chunks and index rows as objects of a store.
ghost use Rattle.std.specs.Prelude.{◌≡◌, IfOk};
ghost use Rattle.sha2.specs.Sha256.{sha256};
ghost use Rattle.ing_codec.specs.ChunkObjects.{IsObject, chunk_text};
ghost use Rattle.ing_codec.specs.ObjectNames as names;
ghost use Rattle.ing_codec.specs.RowObjects.{row_text};
ghost use Rattle.ing_store.specs.StoreFaults.{IsCounted};

use crate::fault::StoreFault;
use crate::store_end::{Receipt, StoreEnd};
use ing_codec::{ChunkView, IndexRow, chunk_key, chunk_name, encode_chunk, encode_row, row_name};
use std::alloc::Global;

/// A chunk that was put into a store: what its store end gave for it, and its key.
#[derive(Drop)]
pub struct Uploaded<R: Receipt> {
    /// What means the object.
    pub receipt: R,
    /// The SHA-256 (FIPS 180-4) of its bytes.
    pub key: [u8; 32],
}

/// Puts a chunk into a store: its one spelling, under the name of its key. `NoMemory` where memory ran out,
/// and any other fault only where the end has failed; a fault leaves open whether the object is stored.
/// (Own.)
pub fn put_chunk<S: StoreEnd>(
    alloc: Global,
    end: &mut S,
    chunk: &ChunkView<'_>,
) -> Result<Uploaded<S::Receipt>, StoreFault>
    // The receipt means the chunk, all of it, under its name.
    ensures bytes { IfOk result (λ u. S.Receipt.bytes u.receipt ≡ chunk_text chunk.now) }
    ensures name { IfOk result (λ u.
        S.Receipt.name u.receipt ≡ names.chunk_name (sha256 (chunk_text chunk.now))) }
    ensures key { IfOk result (λ u. u.key ≡ sha256 (chunk_text chunk.now)) }
    // It is read back from these bytes.
    ensures object { IfOk result (λ _. IsObject chunk.now) }
    // A fault has a cause.
    ensures count { IsCounted (S.failure_count end.old) (S.failure_count end.new) result }
    // An end that never fails stays such an end.
    ensures sure { S.never_fails end.old → (S.never_fails end.new)
        × (S.failure_count end.new ≡ S.failure_count end.old) }
{
    let bytes = encode_chunk(alloc, chunk)?;
    let key = chunk_key(&bytes);
    let name = chunk_name(alloc, &key)?;
    let receipt = end.put_digested(alloc, name.as_str(), &bytes, &key)?;
    Ok(Uploaded { receipt, key })
}

/// Puts the row of a chunk into a store: its one spelling, under the name of its stream and key. `NoMemory`
/// where memory ran out, and any other fault only where the end has failed; a fault leaves open whether the
/// object is stored. (Own.)
pub fn put_row<S: StoreEnd>(
    alloc: Global,
    end: &mut S,
    row: &IndexRow,
) -> Result<S::Receipt, StoreFault>
    ensures bytes { IfOk result (λ r. S.Receipt.bytes r ≡ row_text row.now) }
    ensures name { IfOk result (λ r.
        S.Receipt.name r ≡ names.row_name row.now.tenant row.now.name row.now.key) }
    // A fault has a cause.
    ensures count { IsCounted (S.failure_count end.old) (S.failure_count end.new) result }
    // An end that never fails stays such an end.
    ensures sure { S.never_fails end.old → (S.never_fails end.new)
        × (S.failure_count end.new ≡ S.failure_count end.old) }
{
    let bytes = encode_row(alloc, row)?;
    let name = row_name(alloc, row.tenant(), row.labels().name(), &row.key())?;
    end.put(alloc, name.as_str(), &bytes)
}
