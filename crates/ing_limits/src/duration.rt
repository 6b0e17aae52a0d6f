//! Durations as settings spell them.
ghost use Rattle.std.specs.Prelude.{◌≡◌, ◌+◌, ◌≤◌, ◌<◌, ◌^◌, All, IfSome, MatchOption, length, take, true};
ghost use Rattle.ing_rows.specs.Texts.{is_digit, digits_value};
ghost use Rattle.ing_limits.specs.Durations as durations;

use ing_rows::value_of_digits;

/// The most digits of a part.
const MAX_DIGITS: usize = 19;

/// The first number of nanoseconds that is no duration.
const DURATION_END: u64 = 0x8000_0000_0000_0000;

/// The nanoseconds of a text of one or more parts, each 1 to 19 digits and `h`, `m`, `s`, `ms`, `us` or `ns`, up to
/// 2^63-1.
pub(crate) fn duration_of(text: &[u8]) -> Option<u64>
    ensures { result ≡ durations.duration_of text.now }
{
    let mut rest = text;
    let mut total: u64 = 0;
    for turn in 0..text.len() {
        let (part, after) = part_at(rest)?;
        total = sum(total, part)?;
        if after.is_empty() {
            return capped(total);
        }
        rest = after;
    }
    None
}

/// The sum, and `None` from 2^64 on.
fn sum(total: u64, part: u64) -> Option<u64>
    ensures { MatchOption result (2 ^ 64 ≤ total + part) (λ sum. sum ≡ total + part) }
{
    total.checked_add(part)
}

/// The number, where it is a duration.
fn capped(nanoseconds: u64) -> Option<u64>
    ensures { result ≡ durations.capped nanoseconds }
{
    if nanoseconds < DURATION_END {
        Some(nanoseconds)
    } else {
        None
    }
}

/// The part at the front in nanoseconds, and what follows it. `None` also where the part has 2^64 nanoseconds or more.
fn part_at(text: &[u8]) -> Option<(u64, &[u8])>
    ensures { let part_at = durations.part_at text.now in
        MatchOption result (IfSome part_at (λ part. 2 ^ 64 ≤ part.0))
        (λ part. part_at ≡ Some (part.0, part.1.now)) }
{
    let count = digit_count(text);
    if count == 0 || count > MAX_DIGITS {
        return None;
    }
    let (digits, rest) = text.split_at(count);
    let (unit, length) = unit_at(rest)?;
    let nanoseconds = value_of_digits(digits).checked_mul(unit)?;
    Some((nanoseconds, &rest[length..]))
}

/// How many digits stand at the front.
fn digit_count(text: &[u8]) -> usize
    ensures value { result ≡ durations.digit_count text.now }
    ensures within { result ≤ length text.now }
    ensures digits { All (λ d. is_digit d ≡ true) (take result text.now) }
{
    for (at, byte) in text.iter().enumerate() {
        if !byte.is_ascii_digit() {
            return at;
        }
    }
    text.len()
}

/// The unit at the front: its nanoseconds, and its length in bytes.
fn unit_at(text: &[u8]) -> Option<(u64, usize)>
    ensures value { result ≡ durations.unit_at text.now }
    ensures within { IfSome result (λ unit. unit.1 ≤ length text.now) }
{
    let first = text.first().copied().unwrap_or(0);
    let second = text.get(1).copied().unwrap_or(0);
    match (first, second) {
        (b'h', _) => Some((3_600_000_000_000, 1)),
        (b's', _) => Some((1_000_000_000, 1)),
        (b'm', b's') => Some((1_000_000, 2)),
        (b'm', _) => Some((60_000_000_000, 1)),
        (b'u', b's') => Some((1000, 2)),
        (b'n', b's') => Some((1, 2)),
        _ => None,
    }
}
