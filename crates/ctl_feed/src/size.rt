//! What an entry takes in a command, in bytes of JSON.
ghost use Rattle.std.specs.Prelude.{◌≡◌, ◌+◌, ◌*◌, ◌≤◌, length};
ghost use Rattle.std.specs.Option.{SomeIff};
ghost use Rattle.json.specs.Print.{escape_byte, quoted};
ghost use Rattle.ctl_feed.specs.Loads.{size_of};

use ing_rows::Entry;

/// How many bytes the values of a command have at most, and what stands around them has.
pub const MAX_BYTES: usize = 8_388_608;

/// What a value takes beside its line: a stamp of 19 digits, quotes, brackets and commas.
const AROUND: usize = 25;

/// What an entry takes among the values of a command, or `None` above `MAX_BYTES`. Takes no memory.
pub(crate) fn size_in_bounds(entry: &Entry) -> Option<usize>
    ensures { SomeIff result (size_of entry.now ≤ MAX_BYTES) (size_of entry.now) }
{
    let line = entry.line.as_str();
    if line.len() > MAX_BYTES {
        return None;
    }
    let size = quoted_len(line) + AROUND;
    if size > MAX_BYTES { None } else { Some(size) }
}

/// How many bytes a text has as a JSON text, with its quotes.
fn quoted_len(text: &str) -> usize
    requires { length text.now ≤ MAX_BYTES }
    ensures length { result ≡ length (quoted text.now) }
    ensures small { result ≤ 6 * MAX_BYTES + 2 }
{
    let mut len = 2;
    for byte in text.as_bytes() {
        len += escaped_len(*byte);
    }
    len
}

/// How many bytes stand for one in a JSON text.
#[tactic(auto, unfolding(json::specs::Print::escape_byte))]
fn escaped_len(byte: u8) -> usize
    ensures length { result ≡ length (escape_byte byte) }
    ensures small { result ≤ 6 }
{
    match byte {
        b'"' | b'\\' | 8 | 9 | 10 | 12 | 13 => 2,
        0..=31 => 6,
        _ => 1,
    }
}
