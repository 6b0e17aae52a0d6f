//! Which shard a stream is in.
ghost use Rattle.std.specs.Prelude.{◌≡◌, ◌<◌};
ghost use Rattle.ing_rows.specs.Placement as placement;

use super::tenant::Tenant;
use sha2::{Digest, Sha256};

/// The shard of a stream, from 0 and below `shards`: the first four bytes of the SHA-256 (FIPS 180-4) of the tenant, a
/// byte 0 and the canonical name, as a big-endian number, modulo the count of shards (own). Takes no memory.
pub fn shard_of(tenant: &Tenant, name: &str, shards: u32) -> u32
    requires { 0 < shards }
    ensures shard { result ≡ placement.shard_of tenant.now name.now shards }
    ensures below { result < shards }
{
    // All streams have their place in an only shard: a push is spared the digest.
    if shards == 1 {
        return 0;
    }
    let mut hasher = Sha256::new();
    hasher.update(tenant.as_str());
    hasher.update([0u8].as_slice());
    hasher.update(name);
    let digest = hasher.finalize();
    u32::from_be_bytes([digest[0], digest[1], digest[2], digest[3]]) % shards
}
