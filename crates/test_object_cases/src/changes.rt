//! A chunk of which a part is missing or a byte changed.
use anyhow::{Result, bail};
use ing_codec::{CodecFault, decode_chunk, decode_lent, encode_chunk};
use std::alloc::Global;

/// How many of the fronts of these bytes, shorter than they are, end within a field.
pub fn truncated(alloc: Global, bytes: &[u8]) -> u32 {
    let mut fronts = 0u32;
    for length in 0..bytes.len() {
        if decode_chunk(alloc, &bytes[..length]).err() == Some(CodecFault::Truncated) {
            fronts = fronts.saturating_add(1);
        }
    }
    fronts
}

/// What became of the changes of a byte.
#[derive(Clone, Copy, Default)]
pub struct Changed {
    /// So many are refused, with the same fault where lines stay in the bytes.
    pub refused: u32,
    /// So many are another chunk, which is written again as it stands.
    pub again: u32,
}

/// Gives each byte each value, one at a time.
pub fn after_changes(alloc: Global, bytes: &[u8]) -> Result<Changed> {
    let mut changed = Changed::default();
    for at in 0..bytes.len() {
        for value in 0..=255u8 {
            if is_again(alloc, &with_byte(alloc, bytes, at, value)?)? {
                changed.again = changed.again.saturating_add(1);
            } else {
                changed.refused = changed.refused.saturating_add(1);
            }
        }
    }
    Ok(changed)
}

/// A copy with this value at an offset.
fn with_byte(alloc: Global, bytes: &[u8], at: usize, value: u8) -> Result<Vec<u8>> {
    let mut copy = bytes.to_vec(alloc)?;
    if let Some(byte) = copy.get_mut(at) {
        *byte = value;
    }
    Ok(copy)
}

/// Whether the bytes are a chunk, which then is written again as it stands.
fn is_again(alloc: Global, bytes: &[u8]) -> Result<bool> {
    let lent = decode_lent(alloc, bytes).err();
    match decode_chunk(alloc, bytes) {
        Ok(chunk) => {
            let again = encode_chunk(alloc, &chunk.view())?;
            if again.as_slice() != bytes || lent.is_some() {
                bail!("a chunk is written in another way");
            }
            Ok(true)
        }
        Err(fault) => {
            if lent != Some(fault) {
                bail!("another fault where lines stay in the bytes");
            }
            Ok(false)
        }
    }
}
