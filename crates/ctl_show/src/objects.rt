//! Stored chunks and index rows in words.
use crate::words::{key_words, put_entry, stream_words};
use ing_chunk::Block;
use ing_codec::{IndexRow, StoredChunk};
use std::alloc::{AllocError, Global};

/// A chunk in words, of some lines: its stream, its key, the numbers and the size of its entries in bytes, its blocks with their
/// stamps in nanoseconds, and where they are asked for its entries. It fails only where memory runs out. (Own.)
pub fn chunk_words(
    alloc: Global,
    chunk: &StoredChunk,
    key: &[u8; 32],
    with_entries: bool,
) -> Result<String, AllocError> {
    let stream = stream_words(alloc, chunk.tenant(), chunk.labels())?;
    let key = key_words(alloc, key)?;
    let (count, first, size) = (chunk.count(), chunk.first(), chunk.size());
    let mut text = format!(in alloc;
        "chunk of {stream}\n  key {key}\n  {count} entries from number {first}, {size} bytes\n"
    )?;
    for (at, block) in chunk.blocks().iter().enumerate() {
        put_block(alloc, &mut text, first, at, block, with_entries)?;
    }
    Ok(text)
}

/// Puts the lines of a block behind a text. The numbers of its entries count from that of the chunk.
fn put_block(
    alloc: Global,
    text: &mut String,
    first: u64,
    at: usize,
    block: &Block,
    with_entries: bool,
) -> Result<(), AllocError> {
    let count = block.entries().len();
    let (least, greatest) = block.span().unwrap_or((0, 0));
    let line = format!(in alloc; "  block {at}: {count} entries, stamps {least} to {greatest}\n")?;
    text.push_str(line.as_str())?;
    if with_entries {
        for numbered in block.entries() {
            put_entry(alloc, text, numbered.number, &numbered.entry)?;
        }
    }
    Ok(())
}

/// An index row in words, of some lines: its stream, the key of its chunk, and the numbers, the size in bytes and the stamps in
/// nanoseconds of its entries. It fails only where memory runs out. (Own.)
pub fn row_words(alloc: Global, row: &IndexRow) -> Result<String, AllocError> {
    let stream = stream_words(alloc, row.tenant(), row.labels())?;
    let key = key_words(alloc, &row.key())?;
    let extent = row.extent();
    let (count, first, size) = (extent.count, extent.first, extent.size);
    let (least, greatest) = (extent.least.nanoseconds(), extent.greatest.nanoseconds());
    format!(in alloc;
        "index row of {stream}\n  chunk {key}\n  {count} entries from number {first}, {size} bytes, stamps {least} to {greatest}\n"
    )
}
