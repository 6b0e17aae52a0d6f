//! The times of lines.
ghost use Rattle.std.specs.Prelude.{◌≡◌, IfOk, option_map};
ghost use Rattle.ctl_feed.specs.Times as times;

use crate::parts::{before, behind};
use ing_rows::Stamp;
use jiff::Timestamp;
use std::alloc::{AllocError, Global};
use std::str;

/// Where the stamps of lines come from.
#[derive(Clone, Copy, Debug, PartialEq, Eq)]
pub enum Stamps {
    /// From the time of the load: lines have no time of their own.
    Now,
    /// From the lines, where they begin with a time.
    Line,
    /// From the lines, where they begin with seconds since 1970.
    Seconds,
    /// From the lines, where they begin with milliseconds since 1970.
    Milliseconds,
    /// From the lines, where they have a time of nginx or Apache in square brackets.
    Nginx,
    /// From the lines, where they begin with a time of the BSD syslog protocol, which has neither year nor
    /// zone: UTC, in this year, or in the one before where the time is above the latest.
    Syslog { year: u16, latest: Stamp },
}

/// The digits of a second in nanoseconds, and those of a millisecond.
const SECOND_DIGITS: usize = 9;

const MILLISECOND_DIGITS: usize = 6;

/// How many bytes a time of syslog has.
const SYSLOG_BYTES: usize = 15;

impl Stamps {
    ghost use Rattle.std.specs.Prelude.{◌≡◌, IfOk};
    ghost use Rattle.ctl_feed.specs.Times.{time_of};

    /// The time of a line, if it has one. It fails only where memory runs out.
    ///
    /// - `Now`: none.
    /// - `Line`: that which its first word is, up to a space or a tab, or its first two. That is a stamp, 1 to
    ///   19 digits of nanoseconds since 1970 up to 2^63-1, or a time of RFC 3339 from 1970 on, up to 2^63-1
    ///   nanoseconds since; what else `jiff::Timestamp` reads, such as a zone behind it, is taken too.
    /// - `Seconds`, `Milliseconds`: so many since 1970 as its first word has, in digits, and behind a dot the
    ///   digits of a fraction, of which those below a nanosecond count for nothing.
    /// - `Nginx`: `28/Nov/2026:13:52:55 +0100` in the first square brackets (nginx documentation: `$time_local`).
    /// - `Syslog`: `Nov 28 13:52:55` at its beginning (RFC 3164, section 4.1.2). (Own.)
    pub fn time_of(&self, alloc: Global, line: &[u8]) -> Result<Option<Stamp>, AllocError>
        ensures { IfOk result (λ time. time ≡ time_of self.now line.now) }
    {
        match self {
            Stamps::Now => Ok(None),
            Stamps::Line => Ok(line_time(line)),
            Stamps::Seconds => number_time(alloc, first_word(line), SECOND_DIGITS),
            Stamps::Milliseconds => number_time(alloc, first_word(line), MILLISECOND_DIGITS),
            Stamps::Nginx => nginx_time(alloc, before(behind(line, b'['), b']')),
            Stamps::Syslog { year, latest } => syslog_time(alloc, *year, *latest, line),
        }
    }
}

/// The time that a line begins with, in a word or in two.
fn line_time(line: &[u8]) -> Option<Stamp>
    ensures { result ≡ times.line_time line.now }
{
    match time_in(first_word(line)) {
        Some(time) => Some(time),
        None => time_in(two_words(line)),
    }
}

/// The time of a number of units of so many digits in nanoseconds.
fn number_time(alloc: Global, word: &[u8], digits: usize) -> Result<Option<Stamp>, AllocError>
    ensures { IfOk result (λ time. time ≡ times.number_time digits word.now) }
{
    let whole = before(word, b'.');
    if whole.is_empty() {
        return Ok(None);
    }
    let mut fraction = Vec::new(alloc);
    fraction.extend_from_slice(behind(word, b'.'))?;
    fraction.extend_from_slice(b"000000000")?;
    fraction.truncate(digits);
    let mut number = Vec::new(alloc);
    number.extend_from_slice(whole)?;
    number.extend_from_slice(&fraction)?;
    Ok(time_in(&number))
}

/// The time of nginx that a text is.
fn nginx_time(alloc: Global, text: &[u8]) -> Result<Option<Stamp>, AllocError>
    ensures { IfOk result (λ time. time ≡ times.nginx_time text.now) }
{
    let (day, rest) = (before(text, b'/'), behind(text, b'/'));
    let (name, rest) = (before(rest, b'/'), behind(rest, b'/'));
    let (year, rest) = (before(rest, b':'), behind(rest, b':'));
    dated_time(
        alloc,
        (year, name, day),
        before(rest, b' '),
        behind(rest, b' '),
    )
}

/// The time of syslog that a line begins with, in this year or in the one before.
fn syslog_time(
    alloc: Global,
    year: u16,
    latest: Stamp,
    line: &[u8],
) -> Result<Option<Stamp>, AllocError>
    ensures { IfOk result (λ time. time ≡ times.syslog_time year latest line.now) }
{
    match syslog_in(alloc, year, line)? {
        Some(time) if time.nanoseconds() <= latest.nanoseconds() => Ok(Some(time)),
        _ => syslog_in(alloc, year.saturating_sub(1), line),
    }
}

/// The time of syslog that a line begins with, in a year: three bytes of a month, a space, two of a day with
/// a space for a zero in front, a space, and eight of a clock.
fn syslog_in(alloc: Global, year: u16, line: &[u8]) -> Result<Option<Stamp>, AllocError>
    ensures { IfOk result (λ time. time ≡ times.syslog_in year line.now) }
{
    if line.len() < SYSLOG_BYTES || line[3] != b' ' || line[6] != b' ' {
        return Ok(None);
    }
    let year = year.to_string(alloc)?;
    let day = [digit_at(line[4]), line[5]];
    dated_time(
        alloc,
        (year.as_bytes(), &line[..3], &day),
        &line[7..SYSLOG_BYTES],
        b"Z",
    )
}

/// The digit in place of a space.
fn digit_at(byte: u8) -> u8
    ensures { result ≡ times.digit_at byte }
{
    if byte == b' ' { b'0' } else { byte }
}

/// The time of a date, which is a year, the name of a month and a day, at a clock and a zone.
fn dated_time(
    alloc: Global,
    date: (&[u8], &[u8], &[u8]),
    clock: &[u8],
    zone: &[u8],
) -> Result<Option<Stamp>, AllocError>
    ensures { IfOk result (λ time. time
        ≡ times.dated_time date.entry.0.now date.entry.1.now date.entry.2.now clock.now zone.now) }
{
    let (year, name, day) = date;
    let Some(month) = month_in(name) else {
        return Ok(None);
    };
    // As ISO 8601 writes it.
    let mut text = Vec::new(alloc);
    text.extend_from_slice(year)?;
    text.push(b'-')?;
    text.extend_from_slice(month.as_bytes())?;
    text.push(b'-')?;
    text.extend_from_slice(day)?;
    text.push(b'T')?;
    text.extend_from_slice(clock)?;
    text.extend_from_slice(zone)?;
    Ok(time_in(&text))
}

/// The number of a month in two digits, by its name in three letters.
fn month_in(name: &[u8]) -> Option<&'static str>
    ensures { option_map (λ digits. digits.now) result ≡ times.month_in name.now }
{
    let Ok(name) = str::from_utf8(name) else {
        return None;
    };
    month_named(name)
}

fn month_named(name: &str) -> Option<&'static str>
    ensures { option_map (λ digits. digits.now) result ≡ times.month_named name.now }
{
    match name {
        "Jan" => Some("01"),
        "Feb" => Some("02"),
        "Mar" => Some("03"),
        "Apr" => Some("04"),
        "May" => Some("05"),
        "Jun" => Some("06"),
        "Jul" => Some("07"),
        "Aug" => Some("08"),
        "Sep" => Some("09"),
        "Oct" => Some("10"),
        "Nov" => Some("11"),
        "Dec" => Some("12"),
        _ => None,
    }
}

/// What stands before the first space or tab.
fn first_word(line: &[u8]) -> &[u8]
    ensures { result.now ≡ times.first_word line.now }
{
    for (end, byte) in line.iter().enumerate() {
        if is_blank(*byte) {
            return &line[..end];
        }
    }
    line
}

/// What stands before the second space or tab.
fn two_words(line: &[u8]) -> &[u8]
    ensures { result.now ≡ times.two_words line.now }
{
    let one = first_word(line).len();
    if one == line.len() {
        return line;
    }
    let other = first_word(&line[one + 1..]).len();
    &line[..one + 1 + other]
}

fn is_blank(byte: u8) -> bool
    ensures { result ≡ times.is_blank byte }
{
    byte == b' ' || byte == b'\t'
}

/// The time that a word is.
fn time_in(word: &[u8]) -> Option<Stamp>
    ensures { result ≡ times.time_in word.now }
{
    let Ok(text) = str::from_utf8(word) else {
        return None;
    };
    match Stamp::of_text(text) {
        Ok(stamp) => Some(stamp),
        Err(_) => instant_in(text),
    }
}

/// The instant that a text is.
fn instant_in(text: &str) -> Option<Stamp>
    ensures { result ≡ times.instant_in text.now }
{
    let Ok(instant) = text.parse::<Timestamp>() else {
        return None;
    };
    let Ok(nanoseconds) = u64::try_from(instant.as_nanosecond()) else {
        return None;
    };
    Stamp::of_nanoseconds(nanoseconds)
}
