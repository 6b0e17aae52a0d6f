//! What stands before and behind a byte. It takes no memory.
ghost use Rattle.std.specs.Prelude.{◌≡◌, ◌≤◌, length};
ghost use Rattle.std.specs.List.{after_first, before_first, position_or_len};
ghost use Rattle.memchr.specs.Find.{is_byte};

use memchr::memchr;

/// Where the first such byte stands, or the end.
fn place_of(bytes: &[u8], mark: u8) -> usize
    ensures place { result ≡ position_or_len (is_byte mark) bytes.now }
    ensures within { result ≤ length bytes.now }
{
    match memchr(mark, bytes) {
        Some(at) => at,
        None => bytes.len(),
    }
}

/// What stands before the first such byte, or all.
pub(crate) fn before(bytes: &[u8], mark: u8) -> &[u8]
    ensures { result.now ≡ before_first (is_byte mark) bytes.now }
{
    &bytes[..place_of(bytes, mark)]
}

/// What stands behind the first such byte, or nothing.
pub(crate) fn behind(bytes: &[u8], mark: u8) -> &[u8]
    ensures { result.now ≡ after_first (is_byte mark) bytes.now }
{
    let at = place_of(bytes, mark);
    if at < bytes.len() {
        &bytes[at + 1..]
    } else {
        &bytes[at..]
    }
}
