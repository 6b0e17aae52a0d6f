//! A stored chunk as its shard lists it, and all entries of a stream, where they stand.
ghost use Rattle.std.specs.Prelude.{◌≡◌, IfOk, filter, true, [], IsPermutation, OnOk, map};
ghost use Rattle.ing_labels.specs.Canonical.{canonical_of};
ghost use Rattle.ing_chunk.specs.Chunks.{in_blocks, is_between, entries_growing, entries_in_memory, entries_of, entries_of_all};
ghost use Rattle.ing_store.specs.RowObjects.{IsExtent};
ghost use Rattle.ing_parts.specs.Listings.{IsListing, IsSpelt, listed_of, extent_of};
ghost use Rattle.ing_parts.specs.Parts.{AddsParts, entries_in, found_of};

use crate::found::StreamName;
use crate::laws::parts_join;
use crate::snapshot::{Part, Source};
use ing_chunk::{Block, Chunk, Chunks, Head, Numbered, spans_bound_stamps};
use ing_labels::Labels;
use ing_rows::Tenant;
use ing_store::{Extent, IndexRow, Receipt};
use std::alloc::{AllocError, Global};
use std::marker::Model;
use std::sync::Arc;

/// What is kept of a stored chunk.
#[derive(Drop)]
struct Kept<R: Receipt> {
    row: IndexRow,
    receipt: R,
}

/// A stored chunk: what an index tells of it, and the receipt of its object. Contracts see the name and the
/// bytes that the receipt means, the chunk that the bytes spell, and the key. A shard and the queries
/// that read it share it.
#[derive(Drop)]
pub struct Listing<R: Receipt> {
    kept: Arc<Kept<R>>,
}

impl<R: Receipt> Model for Listing<R> {
    ghost use Rattle.ing_parts.specs.Listings.{Listed};

    ghost Value = { Listed };

    ghost use Rattle.ing_parts.specs.Listings.{listed_of, IsListing};

    ghost view = { λ l. let kept = l.kept.value in
        listed_of (R.name kept.receipt) (R.bytes kept.receipt) kept.row.key };

    ghost invariant = { λ l. let kept = l.kept.value in
        IsListing (R.bytes kept.receipt) kept.row };
}

impl<R: Receipt> Listing<R> {
    /// The listing of the chunk that the bytes of a receipt spell, of which an index tells this. `AllocError` where memory
    /// ran out. (Own.)
    pub fn of(alloc: Global, row: IndexRow, receipt: R) -> Result<Listing<R>, AllocError>
        requires { IsListing (R.bytes receipt) row }
        ensures { IfOk result (λ listing.
            listing ≡ listed_of (R.name receipt) (R.bytes receipt) row.key) }
    {
        Ok(Listing {
            kept: Arc::new(alloc, Kept { row, receipt })?,
        })
    }

    /// A second owner of it. Copies nothing.
    pub fn share(&self) -> Result<Listing<R>, AllocError>
        ensures { IfOk result (λ listing. listing ≡ self.now) }
    {
        Ok(Listing {
            kept: Arc::try_clone(&self.kept)?,
        })
    }

    /// A law: what is listed is the chunk that the bytes of its receipt spell, under their key.
    pub fn is_spelt(&self)
        ensures { IsSpelt self.now }
    {
        // What the type keeps is seen where a field is read.
        let _key = self.kept.row.key();
    }

    /// Its tenant.
    pub fn tenant(&self) -> &Tenant
        ensures { result.now ≡ self.now.tenant }
    {
        self.kept.row.tenant()
    }

    /// The labels of its stream.
    pub fn labels(&self) -> &Labels
        ensures { canonical_of result.now ≡ self.now.stream }
    {
        self.kept.row.labels()
    }

    /// The numbers, the size and the stamps of its entries.
    pub fn extent(&self) -> Extent
        ensures value { result ≡ extent_of self.now.first self.now.blocks }
        ensures range { IsExtent result }
    {
        self.kept.row.extent()
    }

    /// Whether its span shows that it has no entry whose stamp is at least the start and below the end, in nanoseconds.
    pub fn misses(&self, start: u64, end: u64) -> bool
        ensures { result ≡ true →
            filter (is_between start end) (in_blocks self.now.blocks) ≡ [] }
    {
        spans_bound_stamps();
        let extent = self.extent();
        extent.greatest.nanoseconds() < start || extent.least.nanoseconds() >= end
    }

    /// Its key: the SHA-256 (FIPS 180-4) of the bytes of its object.
    pub fn key(&self) -> [u8; 32]
        ensures { result ≡ self.now.key }
    {
        self.kept.row.key()
    }

    /// The receipt of its object: what a store end takes to give the bytes again.
    pub fn receipt(&self) -> &R
        ensures name { R.name result.now ≡ self.now.name }
        ensures bytes { R.bytes result.now ≡ self.now.bytes }
    {
        &self.kept.receipt
    }
}

/// Adds all entries of a stream's chunks in memory to parts, whatever their stamps. After an error the parts have some of them.
/// (Own.)
///
/// `AllocError` where memory runs out.
pub fn list_chunks<R: Receipt>(
    parts: &mut Vec<Part<R>>,
    alloc: Global,
    name: &StreamName,
    chunks: &Chunks,
) -> Result<(), AllocError>
    ensures { OnOk result (AddsParts (map (found_of name.now) (entries_in_memory chunks.now))
        parts.old.items parts.new.items) }
{
    list_waiting(parts, alloc, name, chunks.waiting_chunks())?;
    list_growing(parts, alloc, name, chunks)?;
    Ok(())
}

/// The same of chunks, one after another.
fn list_waiting<R: Receipt>(
    parts: &mut Vec<Part<R>>,
    alloc: Global,
    name: &StreamName,
    chunks: &[Chunk],
) -> Result<(), AllocError>
    ensures { OnOk result (AddsParts (map (found_of name.now) (entries_of_all chunks.now))
        parts.old.items parts.new.items) }
{
    parts_join::<R>();
    for chunk in chunks {
        list_chunk(parts, alloc, name, chunk)?;
    }
    Ok(())
}

/// The same of a growing chunk, where there is one.
fn list_growing<R: Receipt>(
    parts: &mut Vec<Part<R>>,
    alloc: Global,
    name: &StreamName,
    chunks: &Chunks,
) -> Result<(), AllocError>
    ensures { OnOk result (AddsParts
        (map (found_of name.now) (entries_growing chunks.now.growing))
        parts.old.items parts.new.items) }
{
    parts_join::<R>();
    if let Some(chunk) = chunks.growing() {
        list_chunk(parts, alloc, name, chunk)?;
    }
    Ok(())
}

/// Adds all entries of a chunk in memory to parts, whatever their stamps: its closed blocks as they are, or copies of their entries
/// where these cannot be shared, and copies of the entries of its head. After an error the parts have some of them. (Own.)
///
/// `AllocError` where memory runs out.
pub fn list_chunk<R: Receipt>(
    parts: &mut Vec<Part<R>>,
    alloc: Global,
    name: &StreamName,
    chunk: &Chunk,
) -> Result<(), AllocError>
    ensures { OnOk result (AddsParts (map (found_of name.now) (entries_of chunk.now))
        parts.old.items parts.new.items) }
{
    list_blocks(parts, alloc, name, chunk.blocks())?;
    list_head(parts, alloc, name, chunk.head())?;
    Ok(())
}

/// Adds closed blocks, one after another.
fn list_blocks<R: Receipt>(
    parts: &mut Vec<Part<R>>,
    alloc: Global,
    name: &StreamName,
    blocks: &[Block],
) -> Result<(), AllocError>
    ensures { OnOk result (AddsParts (map (found_of name.now) (in_blocks blocks.now))
        parts.old.items parts.new.items) }
{
    parts_join::<R>();
    for block in blocks {
        let same = same_block(alloc, block)?;
        add_part(parts, name, Source::Block(same))?;
    }
    Ok(())
}

/// Adds copies of the entries of a head, where it has any.
fn list_head<R: Receipt>(
    parts: &mut Vec<Part<R>>,
    alloc: Global,
    name: &StreamName,
    head: &Head,
) -> Result<(), AllocError>
    ensures { OnOk result (AddsParts (map (found_of name.now) head.now)
        parts.old.items parts.new.items) }
{
    parts_join::<R>();
    if head.is_empty() {
        return Ok(());
    }
    let copies = copies_of(alloc, head.entries())?;
    add_part(parts, name, Source::Block(Block::of_head(copies)))?;
    Ok(())
}

/// Adds a stored chunk to parts. Reads no store. After an error the parts are what they were. (Own.)
///
/// `AllocError` where memory runs out.
pub fn list_stored<R: Receipt>(
    parts: &mut Vec<Part<R>>,
    name: &StreamName,
    listing: &Listing<R>,
) -> Result<(), AllocError>
    ensures { OnOk result (AddsParts
        (map (found_of name.now) (in_blocks listing.now.blocks))
        parts.old.items parts.new.items) }
{
    let listing = listing.share()?;
    add_part(parts, name, Source::Stored(listing))
}

/// Adds a part.
fn add_part<R: Receipt>(
    parts: &mut Vec<Part<R>>,
    name: &StreamName,
    source: Source<R>,
) -> Result<(), AllocError>
    ensures { OnOk result (AddsParts (map (found_of name.now) (entries_in source))
        parts.old.items parts.new.items) }
{
    let name = name.share()?;
    parts.push(Part { name, source })?;
    Ok(())
}

/// The same block once more: without a copy of its entries where they are shared, and else with copies.
fn same_block(alloc: Global, block: &Block) -> Result<Block, AllocError>
    ensures { IfOk result (λ same. same ≡ block.now) }
{
    match block.share()? {
        Some(same) => Ok(same),
        None => Ok(Block::in_order(copies_of(alloc, block.entries())?)),
    }
}

/// Copies of these entries, in their order.
fn copies_of(alloc: Global, entries: &[Numbered]) -> Result<Vec<Numbered>, AllocError>
    ensures { IfOk result (λ copies. copies.items ≡ entries.now) }
{
    let mut copies = Vec::with_capacity(alloc, entries.len())?;
    for numbered in entries {
        copies.push(Numbered {
            number: numbered.number,
            entry: numbered.entry.try_clone(alloc)?,
        })?;
    }
    Ok(copies)
}
