//! Fields that are written one after another. Where memory runs out, a front of the field may stand at the
//! end.
ghost use Rattle.std.specs.Prelude.{◌≡◌, ◌++◌, ◌<◌, ◌^◌, OnOk, length, true};
ghost use Rattle.std.specs.Str.{is_utf8};
ghost use Rattle.std.specs.Int.{w32, w64, to_be_bytes};
ghost use Rattle.ing_codec.specs.Fields.{short_text, long_text, meta_text, front_text};
ghost use Rattle.ing_codec.specs.Versions.{written_version};

use byteorder::{BigEndian, ByteOrder};
use ing_rows::{Line, Stamp, Tenant};
use std::alloc::AllocError;

/// Writes a number as four bytes, big-endian.
pub fn put_u32(out: &mut Vec<u8>, number: u32) -> Result<(), AllocError>
    ensures { OnOk result (out.new.items ≡ out.old.items ++ to_be_bytes w32 number) }
{
    let mut bytes = [0u8; 4];
    BigEndian::write_u32(&mut bytes, number);
    out.extend_from_slice(&bytes)
}

/// Writes a number as eight bytes, big-endian.
pub fn put_u64(out: &mut Vec<u8>, number: u64) -> Result<(), AllocError>
    ensures { OnOk result (out.new.items ≡ out.old.items ++ to_be_bytes w64 number) }
{
    let mut bytes = [0u8; 8];
    BigEndian::write_u64(&mut bytes, number);
    out.extend_from_slice(&bytes)
}

/// Writes a stamp, in nanoseconds and below 2^63, as eight bytes, big-endian.
pub fn put_stamp(out: &mut Vec<u8>, stamp: Stamp) -> Result<(), AllocError>
    ensures text { OnOk result (out.new.items ≡ out.old.items ++ to_be_bytes w64 stamp) }
    ensures range { stamp < 2 ^ 63 }
{
    put_u64(out, stamp.nanoseconds())
}

/// Writes a tenant id: one byte of length, and the text.
pub fn put_tenant(out: &mut Vec<u8>, tenant: &Tenant) -> Result<(), AllocError>
    ensures { OnOk result (out.new.items ≡ out.old.items ++ short_text tenant.now) }
{
    let text = tenant.as_str().as_bytes();
    out.push(text.len() as u8)?;
    out.extend_from_slice(text)
}

/// Writes a canonical name: four bytes of length, and the text.
pub fn put_name(out: &mut Vec<u8>, name: &str) -> Result<(), AllocError>
    requires { length name.now < 2 ^ 32 }
    ensures { OnOk result (out.new.items ≡ out.old.items ++ long_text name.now) }
{
    put_u32(out, name.len() as u32)?;
    out.extend_from_slice(name.as_bytes())
}

/// Writes a line: four bytes of length, and the text.
pub fn put_line(out: &mut Vec<u8>, line: &Line) -> Result<(), AllocError>
    requires { length line.now < 2 ^ 32 }
    ensures text { OnOk result (out.new.items ≡ out.old.items ++ long_text line.now) }
    ensures utf8 { is_utf8 line.now ≡ true }
{
    let text = text_of(line);
    put_u32(out, text.len() as u32)?;
    out.extend_from_slice(text.as_bytes())
}

/// Writes what stands behind a line: one byte, how many pairs of metadata the entry has, which is none.
pub fn put_meta(out: &mut Vec<u8>) -> Result<(), AllocError>
    ensures { OnOk result (out.new.items ≡ out.old.items ++ meta_text written_version) }
{
    out.push(0)?;
    Ok(())
}

/// The text of a line, which is UTF-8.
fn text_of(line: &Line) -> &str
    ensures text { result.now ≡ line.now }
    ensures utf8 { is_utf8 line.now ≡ true }
{
    line.as_str()
}

/// Writes what each object begins with: the letters of its kind, its version, a tenant id and a canonical
/// name.
pub(crate) fn put_front(
    out: &mut Vec<u8>,
    letters: &[u8],
    version: u8,
    tenant: &Tenant,
    name: &str,
) -> Result<(), AllocError>
    requires { length name.now < 2 ^ 32 }
    ensures { OnOk result
        (out.new.items ≡ out.old.items ++ front_text letters.now version tenant.now name.now) }
{
    out.extend_from_slice(letters)?;
    out.push(version)?;
    put_tenant(out, tenant)?;
    put_name(out, name)?;
    Ok(())
}
