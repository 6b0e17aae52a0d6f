//! What the bytes of an object are.
use anyhow::{Result, bail};
use ing_codec::{
    Extent, IndexRow, LentChunk, StoredChunk, chunk_key, chunk_name, decode_chunk, decode_lent,
    decode_row, encode_chunk, encode_row, row_name,
};
use std::alloc::Global;

/// What a chunk is, or its first fault, which is the same one where lines stay in the bytes.
pub fn chunk_told(alloc: Global, bytes: &[u8]) -> Result<String> {
    match decode_chunk(alloc, bytes) {
        Ok(chunk) => whole_told(alloc, bytes, &chunk),
        Err(fault) => {
            if decode_lent(alloc, bytes).err() != Some(fault) {
                bail!("another fault where lines stay in the bytes");
            }
            Ok(format!(in alloc; "{fault:?}")?)
        }
    }
}

/// What a chunk is, and how it is written: as these bytes, or, of the first version, as a chunk of another name.
fn whole_told(alloc: Global, bytes: &[u8], chunk: &StoredChunk) -> Result<String> {
    let parts = parts_told(alloc, chunk)?;
    let last = last_told(alloc, &decode_lent(alloc, bytes)?)?;
    let name = chunk_name(alloc, &chunk_key(bytes))?;
    let told = format!(in alloc; "{parts}, the last {last}, {name}")?;
    let written = encode_chunk(alloc, &chunk.view())?;
    if written.as_slice() == bytes {
        return Ok(told);
    }
    let other = chunk_name(alloc, &chunk_key(&written))?;
    Ok(format!(in alloc; "{told}, written as {other}")?)
}

/// Whose a chunk is, and what it has.
fn parts_told(alloc: Global, chunk: &StoredChunk) -> Result<String> {
    Ok(format!(in alloc;
        "{} {} from {}, {} blocks with {} entries of {} bytes",
        chunk.tenant().as_str(),
        chunk.labels().name(),
        chunk.first(),
        chunk.blocks().len(),
        chunk.count(),
        chunk.size()
    )?)
}

/// The last entry of the last block: its number, its stamp and its line.
fn last_told(alloc: Global, chunk: &LentChunk<'_>) -> Result<String> {
    let Some(block) = chunk.blocks().last() else {
        bail!("a chunk without blocks");
    };
    let Some(last) = block.entries().last() else {
        bail!("a block without entries");
    };
    Ok(format!(in alloc;
        "{} at {} {:?}",
        last.number(),
        last.stamp().nanoseconds(),
        last.line()
    )?)
}

/// What a row is, or its first fault.
pub fn row_told(alloc: Global, bytes: &[u8]) -> Result<String> {
    match decode_row(alloc, bytes) {
        Ok(row) => row_parts_told(alloc, bytes, &row),
        Err(fault) => Ok(format!(in alloc; "{fault:?}")?),
    }
}

/// What a row says, which has to be written again as these bytes.
fn row_parts_told(alloc: Global, bytes: &[u8], row: &IndexRow) -> Result<String> {
    if encode_row(alloc, row)?.as_slice() != bytes {
        bail!("a row is written in another way");
    }
    let extent = extent_told(alloc, &row.extent())?;
    let name = row_name(alloc, row.tenant(), row.labels().name(), &row.key())?;
    Ok(format!(in alloc;
        "{} {} {extent}, {name}",
        row.tenant().as_str(),
        row.labels().name()
    )?)
}

/// The numbers of an extent.
fn extent_told(alloc: Global, extent: &Extent) -> Result<String> {
    Ok(format!(in alloc;
        "from {}, {} entries of {} bytes, stamps {} to {}",
        extent.first,
        extent.count,
        extent.size,
        extent.least.nanoseconds(),
        extent.greatest.nanoseconds()
    )?)
}
