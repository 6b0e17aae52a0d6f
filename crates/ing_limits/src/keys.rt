//! The keys of a settings file, and what their values have to be.
ghost use Rattle.std.specs.Prelude.{◌≡◌};
ghost use Rattle.toml.specs.View.{view};
ghost use Rattle.ing_limits.specs.Settings as settings;

use crate::duration::duration_of;
use ing_rows::is_tenant_id;
use toml::Value;

/// What a setting's value has to be.
#[derive(Clone, Copy)]
pub enum Kind {
    /// A whole number from 1 to this.
    Whole(u64),
    /// A whole number up to this.
    UpTo(u64),
    /// A duration.
    Duration,
    /// True or false.
    Flag,
    /// A table.
    Table,
    /// No value fits.
    Nothing,
}

/// Where a key stands.
#[derive(Clone, Copy)]
pub enum Level {
    /// At the top of the file.
    Top,
    /// In the table `tenants`.
    Tenants,
    /// In the table of one tenant.
    Tenant,
}

/// The greatest size of a block and of a chunk, in bytes.
const MAX_SIZE: u64 = 1_073_741_824;

/// The greatest length of a log behind which it is replaced, in bytes.
const MAX_LOG_SIZE: u64 = 1_099_511_627_776;

/// The kind of a key, and `None` where it is unknown.
pub(crate) fn kind_of(level: Level, key: &str) -> Option<Kind>
    ensures { result ≡ settings.kind_of level key.now }
{
    match level {
        Level::Top => store_kind(key),
        Level::Tenants => {
            if is_tenant_id(key) {
                Some(Kind::Table)
            } else {
                Some(Kind::Nothing)
            }
        }
        Level::Tenant => limit_kind(key),
    }
}

/// The kind of a key at the top of the file.
fn store_kind(key: &str) -> Option<Kind>
    ensures { result ≡ settings.kind_of Level.Top key.now }
{
    if key == "shards" {
        Some(Kind::Whole(64))
    } else if key == "flushers" {
        Some(Kind::Whole(32))
    } else if key == "flush_queue_length" {
        Some(Kind::Whole(65_536))
    } else if key == "chunk_block_size" || key == "chunk_target_size" {
        Some(Kind::Whole(MAX_SIZE))
    } else if key == "flush_check_period" || key == "chunk_idle_period" || key == "max_chunk_age" {
        Some(Kind::Duration)
    } else if key == "checkpoint_log_size" {
        Some(Kind::UpTo(MAX_LOG_SIZE))
    } else if key == "diaries" {
        Some(Kind::Flag)
    } else if key == "tenants" {
        Some(Kind::Table)
    } else {
        limit_kind(key)
    }
}

/// The kind of a limit.
fn limit_kind(key: &str) -> Option<Kind>
    ensures { result ≡ settings.kind_of Level.Tenant key.now }
{
    if key == "max_label_names" {
        Some(Kind::Whole(64))
    } else if key == "max_label_name_length" {
        Some(Kind::Whole(1024))
    } else if key == "max_label_value_length" {
        Some(Kind::Whole(2048))
    } else if key == "max_line_size" {
        Some(Kind::Whole(262_144))
    } else if key == "max_streams_per_tenant" {
        Some(Kind::Whole(4_294_967_295))
    } else if key == "max_entries_per_push" {
        Some(Kind::Whole(10_000))
    } else {
        None
    }
}

/// The number that a value of this kind is: itself, or the nanoseconds of a duration.
pub(crate) fn number_of(kind: Kind, value: &Value) -> Option<u64>
    ensures { result ≡ settings.number_of kind (view value.now) }
{
    match kind {
        Kind::Whole(most) => whole_of(most, value),
        Kind::UpTo(most) => up_to(most, value),
        Kind::Duration => match value.as_str() {
            Some(text) => duration_of(text.as_bytes()),
            None => None,
        },
        Kind::Flag | Kind::Table | Kind::Nothing => None,
    }
}

/// The whole number from 1 to `most` that a value is.
fn whole_of(most: u64, value: &Value) -> Option<u64>
    ensures { result ≡ settings.number_of (Kind.Whole most) (view value.now) }
{
    let number = value.as_integer()?;
    let number = u64::try_from(number).ok()?;
    if number >= 1 && number <= most {
        Some(number)
    } else {
        None
    }
}

/// The whole number up to `most` that a value is.
fn up_to(most: u64, value: &Value) -> Option<u64>
    ensures { result ≡ settings.number_of (Kind.UpTo most) (view value.now) }
{
    let number = value.as_integer()?;
    let number = u64::try_from(number).ok()?;
    if number <= most { Some(number) } else { None }
}

/// Whether a value is one of this kind.
pub(crate) fn fits(kind: Kind, value: &Value) -> bool
    ensures { result ≡ settings.fits kind (view value.now) }
{
    match kind {
        Kind::Whole(_) | Kind::UpTo(_) | Kind::Duration => number_of(kind, value).is_some(),
        Kind::Flag => value.as_bool().is_some(),
        Kind::Table => value.is_table(),
        Kind::Nothing => false,
    }
}
