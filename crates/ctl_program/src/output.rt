//! What the commands write.
use anyhow::Result;
use std::io::Write;

/// Writes a text.
pub fn put<W: Write>(writer: &mut W, text: &str) -> Result<()> {
    writer.write_all(text.as_bytes())?;
    Ok(())
}
