//! What an end gives for an object whose bytes lie where they may change.
ghost use Rattle.std.specs.Prelude.{◌≡◌, IfOk, true};
ghost use Rattle.sha2.specs.Sha256.{sha256};
ghost use Rattle.ing_store.specs.Digests.{HasDigestOf};
ghost use Rattle.ing_store.specs.StoredObjects.{stored_object};

use crate::meaning::Meaning;
use crate::store_end::Receipt;
use sha2::{Digest, Sha256};
use std::alloc::{AllocError, Global};
use std::marker::Model;

/// A name, and the SHA-256 (FIPS 180-4) of the bytes that it means. The bytes themselves are in no memory: contracts alone
/// see them. For ends over a medium where bytes may change after they were put, as files (own).
#[derive(Drop)]
pub struct DigestReceipt {
    name: String,
    digest: [u8; 32],
    meaning: Meaning,
}

impl Model for DigestReceipt {
    ghost use Rattle.std.specs.Prelude.{◌≡◌, string_bytes};
    ghost use Rattle.sha2.specs.Sha256.{sha256};
    ghost use Rattle.ing_store.specs.StoredObjects.{StoredObject, stored_object};

    ghost Value = { StoredObject };

    ghost view = { λ r. stored_object (string_bytes r.name) r.meaning };

    ghost invariant = { λ r. r.digest ≡ sha256 r.meaning };
}

impl DigestReceipt {
    /// The receipt of an object of this name with these bytes. Copies the name, and reads the bytes once for their digest.
    /// `AllocError` where memory ran out.
    pub fn of(alloc: Global, name: &str, bytes: &[u8]) -> Result<DigestReceipt, AllocError>
        ensures { IfOk result (λ r. r ≡ stored_object name.now bytes.now) }
    {
        DigestReceipt::of_digested(alloc, name, bytes, &Sha256::digest(bytes))
    }

    /// The same, of bytes whose digest is known: they are not read.
    pub fn of_digested(
        alloc: Global,
        name: &str,
        bytes: &[u8],
        digest: &[u8; 32],
    ) -> Result<DigestReceipt, AllocError>
        requires { digest.now ≡ sha256 bytes.now }
        ensures { IfOk result (λ r. r ≡ stored_object name.now bytes.now) }
    {
        Ok(DigestReceipt {
            name: String::from_str(alloc, name)?,
            digest: *digest,
            meaning: Meaning::of(bytes),
        })
    }

    /// The name of the object. Takes no memory.
    pub fn name(&self) -> &str
        ensures { result.now ≡ self.now.name }
    {
        self.name.as_str()
    }

    /// Whether bytes have the digest of those that it means. Takes no memory.
    pub fn is_of(&self, bytes: &[u8]) -> bool
        ensures yes { HasDigestOf bytes.now self.now.bytes → result ≡ true }
        ensures no { result ≡ true → HasDigestOf bytes.now self.now.bytes }
    {
        Sha256::digest(bytes) == self.digest
    }
}

impl Receipt for DigestReceipt {
    ghost name = { λ r. r.name };

    ghost bytes = { λ r. r.bytes };

    fn digest(&self) -> Option<[u8; 32]> {
        Some(self.digest)
    }
}
