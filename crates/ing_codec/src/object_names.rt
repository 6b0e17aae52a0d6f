//! The keys and names of objects.
ghost use Rattle.std.specs.Prelude.{◌≡◌, IfOk, length, string_bytes};
ghost use Rattle.sha2.specs.Sha256.{sha256};
ghost use Rattle.ing_codec.specs.ObjectNames as spec;

use ing_rows::Tenant;
use sha2::{Digest, Sha256};
use std::alloc::{AllocError, Global};

/// The key of a chunk with these bytes: their SHA-256 (FIPS 180-4). Takes no memory.
pub fn chunk_key(bytes: &[u8]) -> [u8; 32]
    ensures { result ≡ sha256 bytes.now }
{
    Sha256::digest(bytes)
}

/// The name of the object of a chunk with this key: `c-`, and the 64 lower-case hexadecimal digits of the
/// key (own).
pub fn chunk_name(alloc: Global, key: &[u8; 32]) -> Result<String, AllocError>
    ensures { IfOk result (λ name. string_bytes name ≡ spec.chunk_name key.now) }
{
    let mut name = String::from_str(alloc, "c-")?;
    name.push_str(hex::encode(alloc, key.as_slice())?.as_str())?;
    Ok(name)
}

/// The SHA-256 (FIPS 180-4) of a tenant, a byte 0 and a canonical name.
fn stream_digest(tenant: &Tenant, name: &str) -> [u8; 32]
    ensures { result ≡ spec.stream_digest tenant.now name.now }
{
    let mut hasher = Sha256::new();
    hasher.update(tenant.as_str());
    hasher.update([0u8].as_slice());
    hasher.update(name);
    hasher.finalize()
}

/// The name of the object of the row of a chunk with this key: `r-`, the first 16 hexadecimal digits of the
/// SHA-256 (FIPS 180-4) of the tenant, a byte 0 and the canonical name, `-`, and the 64 digits of the key
/// (own).
pub fn row_name(
    alloc: Global,
    tenant: &Tenant,
    name: &str,
    key: &[u8; 32],
) -> Result<String, AllocError>
    ensures { IfOk result (λ text. string_bytes text ≡ spec.row_name tenant.now name.now key.now) }
{
    let digest = stream_digest(tenant, name);
    let mut text = String::from_str(alloc, "r-")?;
    text.push_str(hex::encode(alloc, &digest[..8])?.as_str())?;
    text.push_str("-")?;
    text.push_str(hex::encode(alloc, key.as_slice())?.as_str())?;
    Ok(text)
}
