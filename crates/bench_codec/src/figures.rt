//! The figures.
ghost use Rattle.std.specs.Prelude.{◌≡◌, ◌*◌, ◌/◌, max};

use crate::sample::{entries_a_block, object};
use anyhow::{Result, bail};
use ing_codec::{StoredChunk, chunk_key, chunk_name, decode_chunk, decode_lent, encode_chunk};
use ing_rows::Line;
use std::alloc::Global;
use std::rt::Clock;
use std::time::Instant;

/// How long the rounds of a figure take together, in nanoseconds.
const ENOUGH: u128 = 500_000_000;

/// A figure is of no more rounds.
const MAX_ROUNDS: u32 = 1_000_000;

/// No line has more bytes.
const MAX_LINE: usize = 0xffff_ffff;

/// What is printed.
#[derive(Clone, Copy)]
pub enum Show {
    /// What the chunk is.
    Counts,
    /// What it took.
    Times,
}

/// What is done with a chunk.
#[derive(Clone, Copy)]
enum Step {
    /// Its bytes are written.
    Encode,
    /// It is read from its bytes, with copies of its lines.
    Decode,
    /// It is read from its bytes, and its lines stay in them.
    Lend,
    /// The digest of its bytes is taken.
    Digest,
}

/// Does a step once. What it gives depends on what the step made.
fn once(alloc: Global, step: Step, bytes: &[u8], chunk: &StoredChunk) -> Result<u64> {
    match step {
        Step::Encode => Ok(encode_chunk(alloc, &chunk.view())?.len() as u64),
        Step::Decode => Ok(decode_chunk(alloc, bytes)?.first()),
        Step::Lend => Ok(decode_lent(alloc, bytes)?.first()),
        Step::Digest => Ok(u64::from(chunk_key(bytes)[0])),
    }
}

/// What rounds of a step took, in nanoseconds.
#[derive(Clone, Copy)]
struct Spent {
    /// How many rounds.
    rounds: u32,
    /// All of them together.
    all: u128,
    /// The fastest of them.
    least: u128,
}

/// The time of a round of a step. What the round makes has to be what `first` is.
fn time_of<R: AllocGlobal + Clock>(
    rt: &R,
    step: Step,
    bytes: &[u8],
    chunk: &StoredChunk,
    first: u64,
) -> Result<u128> {
    let start = Instant::now(rt)?;
    let made = once(rt.alloc(), step, bytes, chunk)?;
    let time = start.elapsed(rt)?;
    if made != first {
        bail!("two rounds differ");
    }
    Ok(time.as_nanos())
}

/// What as many rounds of a step took as make up half a second.
fn spent_on<R: AllocGlobal + Clock>(
    rt: &R,
    step: Step,
    bytes: &[u8],
    chunk: &StoredChunk,
) -> Result<Spent> {
    let first = once(rt.alloc(), step, bytes, chunk)?;
    let mut spent = Spent {
        rounds: 0,
        all: 0,
        least: u128::MAX,
    };
    for rounds in 0..MAX_ROUNDS {
        if spent.all >= ENOUGH {
            break;
        }
        let time = time_of(rt, step, bytes, chunk, first)?;
        spent = Spent {
            rounds: rounds + 1,
            all: spent.all.saturating_add(time),
            least: spent.least.min(time),
        };
    }
    Ok(spent)
}

/// Megabytes (10^6 bytes) a second, where so many bytes a round took so many nanoseconds in all rounds.
fn speed(bytes: usize, rounds: u32, time: u128) -> u128
    ensures { result ≡ bytes * rounds * 1_000 / max time 1 }
{
    bytes as u128 * u128::from(rounds) * 1_000 / time.max(1)
}

/// Prints how fast a step is, over all rounds and in the fastest one.
fn figure<R: AllocGlobal + Clock + Print>(
    rt: &R,
    what: &str,
    step: Step,
    bytes: &[u8],
    chunk: &StoredChunk,
) -> Result<()> {
    let spent = spent_on(rt, step, bytes, chunk)?;
    let all = speed(bytes.len(), spent.rounds, spent.all);
    let best = speed(bytes.len(), 1, spent.least);
    println!(rt; "{what} {all} MB/s, at best {best}")?;
    Ok(())
}

/// Prints what a chunk is.
fn counts<R: AllocGlobal + Print>(rt: &R, bytes: &[u8], chunk: &StoredChunk) -> Result<()> {
    let count = chunk.count();
    let blocks = chunk.blocks().len();
    let again = encode_chunk(rt.alloc(), &chunk.view())?;
    if again.as_slice() != bytes {
        bail!("another spelling");
    }
    let name = chunk_name(rt.alloc(), &chunk_key(bytes))?;
    println!(rt;
        "{count} entries in {blocks} blocks, {} bytes: {name}",
        bytes.len()
    )?;
    Ok(())
}

/// Prints what it takes to write a chunk, to read it, and to take the digest of its bytes.
fn times<R: AllocGlobal + Clock + Print>(rt: &R, bytes: &[u8], chunk: &StoredChunk) -> Result<()> {
    println!(rt; "{} bytes", bytes.len())?;
    figure(rt, "encode", Step::Encode, bytes, chunk)?;
    figure(rt, "decode", Step::Decode, bytes, chunk)?;
    figure(rt, "decode, lines left", Step::Lend, bytes, chunk)?;
    figure(rt, "digest", Step::Digest, bytes, chunk)
}

/// Prints the figures of a chunk with lines of so many bytes. An error where memory runs out, the clock
/// cannot be read, or what is printed cannot be written.
pub fn figures<R: AllocGlobal + Clock + Print>(rt: &R, show: Show, line_bytes: u32) -> Result<()> {
    let line = Line::of_string("x".repeat(rt.alloc(), line_bytes as usize)?);
    if line.len() > MAX_LINE {
        bail!("too long a line");
    }
    let bytes = object(rt.alloc(), entries_a_block(line_bytes), &line)?;
    let chunk = decode_chunk(rt.alloc(), &bytes)?;
    print!(rt; "lines of {line_bytes} bytes: ")?;
    match show {
        Show::Counts => counts(rt, &bytes, &chunk),
        Show::Times => times(rt, &bytes, &chunk),
    }
}
