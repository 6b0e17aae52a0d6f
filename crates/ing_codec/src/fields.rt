//! Fields that are read one after another.
ghost use Rattle.std.specs.Prelude.{◌≡◌, ◌+◌, ◌*◌, ◌<◌, ◌≤◌, ◌^◌, IfOk, length, Ok, Err, if◌then◌else◌};
ghost use Rattle.ing_rows.specs.Texts.{is_tenant};
ghost use Rattle.ing_labels.specs.Canonical.{canonical_of};
ghost use Rattle.std.specs.Int.{w32, w64};
ghost use Rattle.ing_refusals.specs.Results.{Returns, Gives};
ghost use Rattle.ing_codec.specs.Fields.{whole, read_number, read_byte, read_bytes, read_magic};
ghost use Rattle.ing_codec.specs.Fields.{read_version, read_known_version, read_tenant, read_name, read_line};
ghost use Rattle.ing_codec.specs.Fields.{read_meta, read_stamp, read_first, read_owner, read_front, is_name};
ghost use Rattle.ing_codec.specs.Fields as spec;
ghost use Rattle.ing_codec.specs.ChunkReading.{read_block_count, ended};

use crate::fault::CodecFault;
use crate::version::Version;
use byteorder::{BigEndian, ByteOrder};
use ing_labels::{Labels, TextFault, canonical_names_are_decided};
use ing_rows::{RowFault, Stamp, Tenant};
use std::alloc::Global;
use std::marker::Model;

/// The most bytes of a tenant id (Loki documentation: multi-tenancy).
const MAX_TENANT: u8 = 150;

/// The most bytes of a line (own).
const MAX_LINE: u32 = 262_144;

/// The greatest number of an entry of a stream (own).
pub(crate) const MAX_FIRST: u64 = 0x4000_0000_0000_0000;

/// The bytes of an object that are still to be read, and the offset of the first of them.
#[derive(Debug, Drop)]
pub struct Fields<'a> {
    at: usize,
    rest: &'a [u8],
}

impl<'a> Model for Fields<'a> {
    ghost use Rattle.std.specs.Prelude.{◌+◌, ◌<◌, ◌^◌, length};
    ghost use Rattle.ing_codec.specs.Fields.{Rest};

    ghost Value = { Rest };

    ghost view = { λ fields. record { at = fields.at; bytes = fields.rest.now } };

    ghost invariant = { λ fields. fields.at + length fields.rest.now < 2 ^ 64 };
}

impl<'a> Fields<'a> {
    /// The fields of an object with these bytes.
    pub fn of(bytes: &'a [u8]) -> Fields<'a>
        ensures { result ≡ whole bytes.now }
    {
        Fields { at: 0, rest: bytes }
    }

    /// The offset of the next byte, in bytes.
    pub fn at(&self) -> usize
        ensures { result ≡ self.now.at }
    {
        self.at
    }

    /// How many bytes are left.
    pub fn left(&self) -> usize
        ensures { result ≡ length self.now.bytes }
    {
        self.rest.len()
    }

    /// One byte. `Truncated` where none is left.
    pub fn byte(self) -> Result<(u8, Fields<'a>), CodecFault>
        ensures { Returns (λ x. x) result (read_byte self.entry) }
    {
        match self.rest {
            [] => Err(CodecFault::Truncated),
            [byte, rest @ ..] => Ok((
                *byte,
                Fields {
                    at: self.at + 1,
                    rest,
                },
            )),
        }
    }

    /// A number of four bytes. `Truncated` where fewer are left.
    pub fn u32(self) -> Result<(u32, Fields<'a>), CodecFault>
        ensures { Returns (λ x. x) result (read_number w32 self.entry) }
    {
        let (front, after) = self.bytes(4)?;
        Ok((BigEndian::read_u32(front), after))
    }

    /// A number of eight bytes. `Truncated` where fewer are left.
    pub fn u64(self) -> Result<(u64, Fields<'a>), CodecFault>
        ensures { Returns (λ x. x) result (read_number w64 self.entry) }
    {
        let (front, after) = self.bytes(8)?;
        Ok((BigEndian::read_u64(front), after))
    }

    /// So many bytes. `Truncated` where fewer are left.
    pub fn bytes(self, count: usize) -> Result<(&'a [u8], Fields<'a>), CodecFault>
        ensures { Returns (λ x. (x.0.now, x.1)) result (read_bytes count self.entry) }
    {
        if self.rest.len() < count {
            return Err(CodecFault::Truncated);
        }
        let (front, rest) = self.rest.split_at(count);
        let after = Fields {
            at: self.at + count,
            rest,
        };
        Ok((front, after))
    }

    /// The four letters with which a kind of object begins. `Truncated` where fewer bytes are left,
    /// `BadMagic` where they are others.
    #[tactic(auto, unfolding(crate::specs::Fields::read_magic))]
    pub fn magic(self, letters: &[u8]) -> Result<Fields<'a>, CodecFault>
        ensures { Returns (λ x. x) result (read_magic letters.now self.entry) }
    {
        let (found, after) = self.bytes(4)?;
        if found == letters {
            Ok(after)
        } else {
            Err(CodecFault::BadMagic)
        }
    }

    /// The version that is expected. `Truncated` where no byte is left, `BadVersion` where it is another.
    #[tactic(auto, unfolding(crate::specs::Fields::read_version))]
    pub fn version(self, expected: u8) -> Result<Fields<'a>, CodecFault>
        ensures { Returns (λ x. x) result (read_version expected self.entry) }
    {
        let (version, after) = self.byte()?;
        if version == expected {
            Ok(after)
        } else {
            Err(CodecFault::BadVersion)
        }
    }

    /// The version of a chunk. `Truncated` where no byte is left, `BadVersion` where there is no such version.
    #[tactic(auto, unfolding(crate::specs::Fields::read_known_version))]
    pub fn known_version(self) -> Result<(Version, Fields<'a>), CodecFault>
        ensures { Returns (λ x. x) result (read_known_version self.entry) }
    {
        let (byte, after) = self.byte()?;
        match byte {
            1 => Ok((Version::First, after)),
            2 => Ok((Version::Second, after)),
            _ => Err(CodecFault::BadVersion),
        }
    }

    /// A tenant id: one byte of length, 1 to 150, and the text. `Truncated` where the length or the text
    /// passes the end; `BadField` of the length where it is another, and of the text where it is no tenant
    /// id.
    #[tactic(auto, unfolding(crate::specs::Fields::read_tenant))]
    pub fn tenant(self, alloc: Global) -> Result<(Tenant, Fields<'a>), CodecFault>
        ensures { Gives CodecFault.NoMemory (λ x. x) result (read_tenant self.entry) }
    {
        let length_at = self.at;
        let (length, rest) = self.byte()?;
        if length == 0 || length > MAX_TENANT {
            return Err(CodecFault::BadField { at: length_at });
        }
        let at = rest.at;
        let (bytes, after) = rest.bytes(usize::from(length))?;
        Ok((tenant_of(alloc, bytes, at)?, after))
    }

    /// A canonical name, whatever its length: four bytes of length, and the text. `Truncated` where the
    /// length or the text passes the end; `BadField` of the text where it is no canonical name.
    #[tactic(auto, unfolding(crate::specs::Fields::read_name))]
    pub fn name(self, alloc: Global) -> Result<(Labels, Fields<'a>), CodecFault>
        ensures value { Gives CodecFault.NoMemory (λ x. (canonical_of x.0, x.1)) result
            (read_name self.entry) }
        ensures few { IfOk result (λ x. length (canonical_of x.0) < 2 ^ 32) }
    {
        let (length, rest) = self.u32()?;
        let at = rest.at;
        let (bytes, after) = rest.bytes(length as usize)?;
        Ok((labels_of(alloc, bytes, at)?, after))
    }

    /// A line: four bytes of length, at most 262144, and the text, UTF-8 (RFC 3629), which stays where it is.
    /// `Truncated` where the length or the text passes the end; `BadField` of the length where it is more,
    /// and of the text where it is not UTF-8.
    #[tactic(auto, unfolding(crate::specs::Fields::read_line))]
    pub fn line(self) -> Result<(&'a str, Fields<'a>), CodecFault>
        ensures { Returns (λ x. (x.0.now, x.1)) result (read_line self.entry) }
    {
        let length_at = self.at;
        let (length, rest) = self.u32()?;
        if length > MAX_LINE {
            return Err(CodecFault::BadField { at: length_at });
        }
        let at = rest.at;
        let (bytes, after) = rest.bytes(length as usize)?;
        Ok((utf8_at(bytes, at)?, after))
    }

    /// What stands behind a line: nothing in the first version; in the second one byte, how many pairs of
    /// metadata the entry has, which is none. `Truncated` where that byte passes the end; `BadField` of it where
    /// it is another than 0.
    #[tactic(auto, unfolding(crate::specs::Fields::read_meta))]
    pub fn meta(self, version: Version) -> Result<Fields<'a>, CodecFault>
        ensures { Returns (λ x. (tt, x)) result (read_meta version self.entry) }
    {
        match version {
            Version::First => Ok(self),
            Version::Second => {
                let at = self.at;
                let (count, after) = self.byte()?;
                if count == 0 {
                    Ok(after)
                } else {
                    Err(CodecFault::BadField { at })
                }
            }
        }
    }

    /// A stamp: a number of eight bytes, in nanoseconds. `Truncated` where fewer are left, `BadField` from
    /// 2^63 on.
    #[tactic(auto, unfolding(crate::specs::Fields::read_stamp))]
    pub fn stamp(self) -> Result<(Stamp, Fields<'a>), CodecFault>
        ensures { Returns (λ x. x) result (read_stamp self.entry) }
    {
        let at = self.at;
        let (nanoseconds, after) = self.u64()?;
        match Stamp::of_nanoseconds(nanoseconds) {
            Some(stamp) => Ok((stamp, after)),
            None => Err(CodecFault::BadField { at }),
        }
    }

    /// Whose an object is: a tenant id and a canonical name.
    #[tactic(auto, unfolding(crate::specs::Fields::read_owner))]
    pub(crate) fn owner(self, alloc: Global) -> Result<(Tenant, Labels, Fields<'a>), CodecFault>
        ensures value { Gives CodecFault.NoMemory (λ x. (x.0, canonical_of x.1, x.2)) result
            (read_owner self.entry) }
        ensures few { IfOk result (λ x. length (canonical_of x.1) < 2 ^ 32) }
    {
        let (tenant, rest) = self.tenant(alloc)?;
        let (labels, after) = rest.name(alloc)?;
        Ok((tenant, labels, after))
    }

    /// What an object of one version begins with: the letters of its kind, the version that is expected, a
    /// tenant id and a canonical name.
    #[tactic(auto, unfolding(crate::specs::Fields::read_front))]
    pub fn front(
        self,
        alloc: Global,
        letters: &[u8],
        version: u8,
    ) -> Result<(Tenant, Labels, Fields<'a>), CodecFault>
        ensures value { Gives CodecFault.NoMemory (λ x. (x.0, canonical_of x.1, x.2)) result
            (read_front letters.now version self.entry) }
        ensures few { IfOk result (λ x. length (canonical_of x.1) < 2 ^ 32) }
    {
        self.magic(letters)?.version(version)?.owner(alloc)
    }

    /// How many blocks a chunk has: a number of four bytes. `Truncated` where fewer are left, `BadField`
    /// where it is 0.
    #[tactic(auto, unfolding(crate::specs::ChunkReading::read_block_count))]
    pub fn block_count(self) -> Result<(u32, Fields<'a>), CodecFault>
        ensures { Returns (λ x. x) result (read_block_count self.entry) }
    {
        let at = self.at;
        let (count, after) = self.u32()?;
        if count == 0 {
            Err(CodecFault::BadField { at })
        } else {
            Ok((count, after))
        }
    }

    /// A key, 32 bytes. `Truncated` where fewer are left.
    pub fn key(self) -> Result<([u8; 32], Fields<'a>), CodecFault>
        ensures { Returns (λ x. x) result (read_bytes 32 self.entry) }
    {
        let Some((key, rest)) = self.rest.split_first_chunk::<32>() else {
            return Err(CodecFault::Truncated);
        };
        let after = Fields {
            at: self.at + 32,
            rest,
        };
        Ok((*key, after))
    }

    /// The end. `Trailing` where a byte is left.
    pub fn end(self) -> Result<(), CodecFault>
        ensures { Returns (λ x. x) result (ended tt self.entry) }
    {
        if self.rest.is_empty() {
            Ok(())
        } else {
            Err(CodecFault::Trailing)
        }
    }

    /// The first number of a chunk: a number of eight bytes. `Truncated` where fewer are left, `BadField`
    /// above 2^62.
    #[tactic(auto, unfolding(crate::specs::Fields::read_first))]
    pub fn first(self) -> Result<(u64, Fields<'a>), CodecFault>
        ensures value { Returns (λ x. x) result (read_first self.entry) }
        ensures few { IfOk result (λ x. x.0 ≤ 2 ^ 62) }
    {
        let at = self.at;
        let (first, after) = self.u64()?;
        if first <= MAX_FIRST {
            Ok((first, after))
        } else {
            Err(CodecFault::BadField { at })
        }
    }
}

/// A text that begins at an offset. `BadField` where the bytes are not UTF-8.
fn utf8_at(bytes: &[u8], at: usize) -> Result<&str, CodecFault>
    ensures { Returns (λ text. text.now) result (spec.utf8_at at bytes.now) }
{
    match str::from_utf8(bytes) {
        Ok(text) => Ok(text),
        Err(_) => Err(CodecFault::BadField { at }),
    }
}

/// The tenant of a text that begins at an offset.
fn tenant_of(alloc: Global, bytes: &[u8], at: usize) -> Result<Tenant, CodecFault>
    ensures { Gives CodecFault.NoMemory (λ tenant. tenant) result
        (if is_tenant bytes.now then Ok bytes.now else Err (CodecFault.BadField at)) }
{
    let text = utf8_at(bytes, at)?;
    match Tenant::of_text(alloc, text) {
        Ok(tenant) => Ok(tenant),
        Err(RowFault::BadTenant) => Err(CodecFault::BadField { at }),
        Err(_) => Err(CodecFault::NoMemory),
    }
}

/// The labels of a canonical name that begins at an offset.
fn labels_of(alloc: Global, bytes: &[u8], at: usize) -> Result<Labels, CodecFault>
    ensures { Gives CodecFault.NoMemory canonical_of result
        (if is_name bytes.now then Ok bytes.now else Err (CodecFault.BadField at)) }
{
    canonical_names_are_decided();
    let text = utf8_at(bytes, at)?;
    match Labels::parse_canonical(alloc, text) {
        Ok(labels) => Ok(labels),
        Err(TextFault::NoMemory) => Err(CodecFault::NoMemory),
        Err(_) => Err(CodecFault::BadField { at }),
    }
}
