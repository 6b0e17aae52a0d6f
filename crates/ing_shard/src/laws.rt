//! What holds of all selectors and of all shards, for the crates above.
ghost use Rattle.std.specs.Prelude.{ℕ, ◌<◌, ◌^◌, Bool, List, length};
ghost use Rattle.ing_labels.specs.Selectors.{Match};
ghost use Rattle.ing_rows.specs.Rows.{StreamKey};
ghost use Rattle.ing_shard.specs.Catalog.{Asked, Tells};
ghost use Rattle.ing_shard.specs.Contents.{Contents, IsOnly, IsOwn};
ghost use Rattle.ing_shard.specs.Picked.{Picks};

use ing_labels::{canonical_names_are_decided, canonical_names_are_exact};

/// Whatever is matched, there is a test of streams, by tenant and canonical name alone, that picks exactly those of a tenant
/// whose labels match.
pub fn streams_are_picked()
    ensures { (tenant : List ℕ) (ms : List Match) →
        (picked : StreamKey → Bool) × Picks tenant ms picked }
{
    canonical_names_are_decided();
    canonical_names_are_exact();
}

/// Whatever text is asked for, there is a test of streams, by tenant and canonical name alone, that tells those which tell it.
pub fn streams_tell()
    ensures { (asked : Asked) (text : List ℕ) → (told : StreamKey → Bool) × Tells asked text told }
{
    canonical_names_are_decided();
    canonical_names_are_exact();
}

/// Each stream whose canonical name can be written is the own of the only shard that there is.
pub fn an_only_shard_has_all()
    ensures { (shard : Contents) (s : StreamKey) → IsOnly shard → length s.name < 2 ^ 32 →
        IsOwn shard.settings.shards shard.number s }
{}
