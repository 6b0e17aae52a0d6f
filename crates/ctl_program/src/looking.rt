//! What a log is, by its first bytes.
use anyhow::{Context, Result, bail};
use std::io::BufRead;

/// How many bytes are looked at, at most.
const LOOKED_AT: usize = 8192;

/// Why a log is no text.
#[derive(Clone, Copy, Debug, PartialEq, Eq)]
enum NoText {
    /// It is compressed by gzip (RFC 1952).
    Gzip,
    /// It begins with the byte order mark of UTF-16.
    Utf16,
    /// The byte at this place is 0.
    Zero(usize),
}

/// Fails where a log is no text by the bytes that are at hand, with the words that read it. No byte is taken.
pub fn test_text<R: BufRead>(path: &str, reader: &mut R) -> Result<()> {
    let first = reader.fill_buf().context(path)?;
    match no_text(&first[..first.len().min(LOOKED_AT)]) {
        None => Ok(()),
        Some(NoText::Gzip) => bail!(
            "{path}: compressed by gzip; type: zcat {path} | ingestctl load .."
        ),
        Some(NoText::Utf16) => {
            bail!("{path}: UTF-16; type: iconv -f UTF-16 -t UTF-8 {path} | ingestctl load ..")
        }
        Some(NoText::Zero(at)) => bail!("{path}: no text; byte {at} is 0"),
    }
}

/// Whether a line of the bytes that are at hand ends in a carriage return and a line feed. No byte is taken.
pub fn has_returns<R: BufRead>(path: &str, reader: &mut R) -> Result<bool> {
    let first = reader.fill_buf().context(path)?;
    let looked = &first[..first.len().min(LOOKED_AT)];
    Ok(looked.windows(2).any(|pair| pair == b"\r\n".as_slice()))
}

/// Why these first bytes are no text.
fn no_text(first: &[u8]) -> Option<NoText> {
    if first.starts_with(&[0x1f, 0x8b]) {
        return Some(NoText::Gzip);
    }
    if first.starts_with(&[0xff, 0xfe]) || first.starts_with(&[0xfe, 0xff]) {
        return Some(NoText::Utf16);
    }
    first.iter().position(|byte| *byte == 0).map(NoText::Zero)
}
