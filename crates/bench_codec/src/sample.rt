//! A sample of a chunk, as the bytes of its object.
ghost use Rattle.std.specs.Prelude.{◌≡◌, ◌<◌, ◌≤◌, ◌+◌, ◌-◌, ◌*◌, ◌^◌, length, IfOk, OnOk};

use anyhow::Result;
use ing_codec::{WRITTEN_VERSION, put_line, put_meta, put_name, put_tenant, put_u32, put_u64};
use ing_rows::{Line, Tenant};
use std::alloc::{AllocError, Global};

/// How many blocks a chunk has: 1.5 MiB of entries.
const BLOCKS: u32 = 6;

/// A block is full at so many bytes of entries.
const BLOCK_BYTES: u32 = 0x4_0000;

/// What an entry counts beside its line, in bytes.
const ENTRY_BYTES: u32 = 16;

/// How many entries with lines of so many bytes fill a block: the least number that has 256 KiB, each line
/// with 16 bytes beside it (own).
pub fn entries_a_block(line_bytes: u32) -> u32
    ensures full { 0x4_0000 ≤ result * (line_bytes + 16) }
    ensures few { result ≤ 0x4000 }
    ensures least { (result - 1) * (line_bytes + 16) < 0x4_0000 }
{
    BLOCK_BYTES.div_ceil(line_bytes.saturating_add(ENTRY_BYTES))
}

/// Writes an entry, a millisecond after the one with the number before.
fn put_entry(out: &mut Vec<u8>, number: u32, line: &Line) -> Result<(), AllocError>
    requires { length line.now < 2 ^ 32 }
    ensures { OnOk result (length out.new.items ≡ length out.old.items + (17 + length line.now)) }
{
    put_u32(out, number)?;
    put_u64(out, u64::from(number) * 1_000_000)?;
    put_line(out, line)?;
    put_meta(out)?;
    Ok(())
}

/// Writes a block of so many entries, from this number on.
fn put_block(out: &mut Vec<u8>, from: u32, count: u32, line: &Line) -> Result<(), AllocError>
    requires line { length line.now < 2 ^ 32 }
    requires numbers { from + count < 2 ^ 32 }
    ensures { OnOk result
        (length out.new.items ≡ length out.old.items + (4 + count * (17 + length line.now))) }
{
    put_u32(out, count)?;
    for number in from..from + count {
        put_entry(out, number, line)?;
    }
    Ok(())
}

/// Writes what stands before the blocks.
fn put_head(out: &mut Vec<u8>, tenant: &Tenant) -> Result<(), AllocError>
    ensures { OnOk result (length out.new.items ≡ length out.old.items + (50 + length tenant.now)) }
{
    out.extend_from_slice(b"INGC")?;
    out.push(WRITTEN_VERSION.byte())?;
    put_tenant(out, tenant)?;
    put_name(out, "{cluster=\"main\", job=\"logs\"}")?;
    put_u64(out, 0)?;
    put_u32(out, BLOCKS)
}

/// The object of a chunk of six blocks of so many entries each, with this line in each. An error where
/// memory runs out.
pub fn object(alloc: Global, count: u32, line: &Line) -> Result<Vec<u8>>
    requires line { length line.now < 2 ^ 32 }
    requires few { count ≤ 0x4000 }
    ensures { IfOk result
        (λ bytes. length bytes.items ≡ 55 + 6 * (4 + count * (17 + length line.now))) }
{
    let tenant = Tenant::of_text(alloc, "bench")?;
    let mut out = Vec::new(alloc);
    put_head(&mut out, &tenant)?;
    for block in 0..BLOCKS {
        put_block(&mut out, block * count, count, line)?;
    }
    Ok(out)
}
