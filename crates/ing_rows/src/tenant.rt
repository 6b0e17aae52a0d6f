//! Tenants.
ghost use Rattle.std.specs.Prelude.{◌≡◌, ◌≢◌, ◌↔◌, ◌==◌, ◌&&◌, ◌||◌, IfOk, IfErr, IsErrOf, List, ℕ, IsTrue, length, string_bytes, true, false};
ghost use Rattle.std.specs.List.{list_all};
ghost use Rattle.ing_rows.specs.Texts.{is_tenant, is_tenant_byte};

use super::fault::RowFault;
use std::alloc::{AllocError, Global};
use std::marker::Model;

/// The most bytes of a tenant id (Loki documentation: multi-tenancy).
const MAX_TENANT_BYTES: usize = 150;

/// A tenant id: 1 to 150 bytes of ASCII letters, digits and `!-_.*'()`, and neither `.` nor `..` (Loki
/// documentation: multi-tenancy).
#[derive(Debug, Drop)]
pub struct Tenant {
    text: String,
}

impl Model for Tenant {
    ghost Value = { List ℕ };

    ghost view = { λ tenant. string_bytes tenant.text };

    ghost invariant = { λ tenant. is_tenant (string_bytes tenant.text) ≡ true };
}

impl Tenant {
    /// The tenant of this text. `BadTenant` exactly where the text is no tenant id; else nothing but want of memory
    /// refuses it.
    pub fn of_text(alloc: Global, text: &str) -> Result<Tenant, RowFault>
        ensures tenant { IfOk result (λ tenant. (tenant ≡ text.now) × (is_tenant text.now ≡ true)) }
        ensures refused { IsErrOf result RowFault.BadTenant ↔ (is_tenant text.now ≡ false) }
        ensures others { IfErr result (λ fault.
            fault ≢ RowFault.NoMemory → fault ≡ RowFault.BadTenant) }
    {
        if !is_tenant_id(text) {
            return Err(RowFault::BadTenant);
        }
        let text = String::from_str(alloc, text)?;
        Ok(Tenant { text })
    }

    /// Its text.
    pub fn as_str(&self) -> &str
        ensures text { result.now ≡ self.now }
        ensures valid { is_tenant self.now ≡ true }
    {
        self.text.as_str()
    }

    /// A copy.
    pub fn try_clone(&self, alloc: Global) -> Result<Tenant, AllocError>
        ensures { IfOk result (λ tenant. tenant ≡ self.now) }
    {
        let text = String::from_str(alloc, self.text.as_str())?;
        Ok(Tenant { text })
    }
}

/// Whether a text is a tenant id: 1 to 150 bytes of ASCII letters, digits and `!-_.*'()`, and neither `.` nor `..`
/// (Loki documentation: multi-tenancy). Takes no memory.
pub fn is_tenant_id(text: &str) -> bool
    ensures { result ≡ is_tenant text.now }
{
    let bytes = text.as_bytes();
    if bytes.is_empty() || bytes.len() > MAX_TENANT_BYTES || text == "." || text == ".." {
        return false;
    }
    are_tenant_bytes(bytes)
}

fn are_tenant_bytes(bytes: &[u8]) -> bool
    ensures { result ≡ list_all is_tenant_byte bytes.now }
{
    bytes.iter().all(|byte| is_tenant_letter(*byte))
}

fn is_tenant_letter(byte: u8) -> bool
    ensures { result ≡ is_tenant_byte byte }
{
    byte.is_ascii_alphanumeric() || b"!-_.*'()".contains(&byte)
}
