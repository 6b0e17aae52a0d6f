//! The key of a stream in the slow program.
ghost use Rattle.std.specs.Prelude.{◌≡◌, IfOk, bytes_eq};
ghost use Rattle.ing_rows.specs.Rows.{same_stream, stream};

use ing_rows::Tenant;
use std::alloc::{AllocError, Global};
use std::marker::Model;

/// A stream's tenant and canonical name.
#[derive(Debug, Drop)]
pub struct Key {
    tenant: Tenant,
    name: String,
}

impl Model for Key {
    ghost use Rattle.std.specs.Prelude.{string_bytes};
    ghost use Rattle.ing_rows.specs.Rows.{StreamKey};

    ghost Value = { StreamKey };

    ghost view = { λ key. record { tenant = key.tenant; name = string_bytes key.name } };
}

impl Key {
    /// The key with copies of these texts.
    pub fn of(alloc: Global, tenant: &Tenant, name: &str) -> Result<Key, AllocError>
        ensures { IfOk result (λ key. key ≡ stream tenant.now name.now) }
    {
        Ok(Key {
            tenant: tenant.try_clone(alloc)?,
            name: String::from_str(alloc, name)?,
        })
    }

    /// Whether it is the key of this stream.
    pub fn is(&self, tenant: &Tenant, name: &str) -> bool
        ensures { result ≡ same_stream self.now (stream tenant.now name.now) }
    {
        self.tenant.as_str() == tenant.as_str() && self.name.as_str() == name
    }

    /// Whether the other key is of the same stream.
    pub fn is_same(&self, other: &Key) -> bool
        ensures { result ≡ same_stream self.now other.now }
    {
        self.is(&other.tenant, other.name.as_str())
    }

    /// Whether the stream is one of this tenant.
    pub fn is_of_tenant(&self, tenant: &Tenant) -> bool
        ensures { result ≡ bytes_eq self.now.tenant tenant.now }
    {
        self.tenant.as_str() == tenant.as_str()
    }
}
