//! The settings of a store.
ghost use Rattle.std.specs.Prelude.{◌≡◌, ◌≤◌, ◌<◌, ◌^◌, ℕ, List, if◌then◌else◌, Some, None, IfOk, IfErr, IfSome, OnOk, Ok, Err, codes, bytes_eq, string_bytes};
ghost use Rattle.std.specs.BTreeMap.{get_by_text};
ghost use Rattle.std.specs.Option.{option_or};
ghost use Rattle.toml.specs.View.{view, table_view};
ghost use Rattle.ing_limits.specs.Held.{IsTenantRules};
ghost use Rattle.ing_limits.specs.Settings as settings;
ghost use Rattle.ing_limits.specs.Small.{IsSmall};

use crate::fault::SettingsFault;
use crate::flaws::{Flaw, first_flawed, tenants_in};
use crate::keys::{Level, kind_of, number_of};
use ing_rows::{Rules, Tenant};
use std::alloc::{AllocError, Global};
use std::collections::BTreeMap;
use std::marker::Model;
use toml::{Table, Value};

/// The settings of a store (Loki documentation: ingester and limits configuration; the names in TOML are own).
#[derive(Debug, Drop)]
pub struct Settings {
    shards: u32,
    flushers: u32,
    flush_queue_length: u32,
    flush_check_period: u64,
    checkpoint_log_size: u64,
    diaries: bool,
    rules: Rules,
    tenants: BTreeMap<String, Rules>,
}

impl Model for Settings {
    ghost use Rattle.ing_limits.specs.Settings.{StoreSettings};

    ghost Value = { StoreSettings };

    ghost use Rattle.ing_limits.specs.Coded.{settings_code};

    ghost coded = { settings_code };

    ghost use Rattle.ing_limits.specs.Held.{held_settings};

    ghost view = { held_settings };

    ghost use Rattle.ing_limits.specs.Held.{IsHeld};

    ghost invariant = { IsHeld };
}

/// The sizes at which blocks and chunks are closed.
#[derive(Clone, Copy, Debug, PartialEq, Eq)]
pub struct ChunkSizes {
    /// A head that has reached so many bytes is closed into a block.
    pub block_size: u64,
    /// A chunk that has reached so many bytes is sealed.
    pub target_size: u64,
}

/// The number at a key of a table, or the default.
fn setting(table: &Table, level: Level, key: &str, default: u64) -> u64
    ensures { result ≡ settings.setting level key.now default (table_view table.now) }
{
    match table.get(key) {
        Some(value) => match kind_of(level, key) {
            Some(kind) => number_of(kind, value).unwrap_or(default),
            None => default,
        },
        None => default,
    }
}

/// What is true or false at a key of a table, or the default.
fn flag(table: &Table, key: &str, default: bool) -> bool
    ensures { result ≡ settings.flag key.now default (table_view table.now) }
{
    match table.get(key) {
        Some(value) => value.as_bool().unwrap_or(default),
        None => default,
    }
}

/// The limits in a table, and the given ones where it has none. Every field is named, so that none can be forgotten.
fn limits_in(given: &Rules, table: &Table) -> Rules
    ensures { result ≡ settings.limits_in given.now (table_view table.now) }
{
    let limit = |key, default| setting(table, Level::Tenant, key, default);
    Rules {
        chunk_block_size: given.chunk_block_size,
        chunk_target_size: given.chunk_target_size,
        chunk_idle_period: given.chunk_idle_period,
        max_chunk_age: given.max_chunk_age,
        max_label_names: limit("max_label_names", given.max_label_names),
        max_label_name_length: limit("max_label_name_length", given.max_label_name_length),
        max_label_value_length: limit("max_label_value_length", given.max_label_value_length),
        max_line_size: limit("max_line_size", given.max_line_size),
        max_streams_per_tenant: limit("max_streams_per_tenant", given.max_streams_per_tenant),
        max_entries_per_push: limit("max_entries_per_push", given.max_entries_per_push),
    }
}

/// The rules of the tenants that have no table.
fn common_rules(table: &Table) -> Rules
    ensures { result ≡ settings.common_rules (table_view table.now) }
{
    let given = Rules::default();
    let own = |key, default| setting(table, Level::Top, key, default);
    let stored = Rules {
        chunk_block_size: own("chunk_block_size", given.chunk_block_size),
        chunk_target_size: own("chunk_target_size", given.chunk_target_size),
        chunk_idle_period: own("chunk_idle_period", given.chunk_idle_period),
        max_chunk_age: own("max_chunk_age", given.max_chunk_age),
        max_label_names: given.max_label_names,
        max_label_name_length: given.max_label_name_length,
        max_label_value_length: given.max_label_value_length,
        max_line_size: given.max_line_size,
        max_streams_per_tenant: given.max_streams_per_tenant,
        max_entries_per_push: given.max_entries_per_push,
    };
    limits_in(&stored, table)
}

/// A whole number at the top of the file, or the default.
fn count_of(table: &Table, key: &str, default: u32) -> u32
    requires { IsSmall (settings.kind_of Level.Top key.now) }
    ensures { result ≡ settings.setting Level.Top key.now default (table_view table.now) }
{
    setting(table, Level::Top, key, u64::from(default)) as u32
}

/// The rules of the tenants that have a table.
fn tenants_of(
    alloc: Global,
    common: &Rules,
    tenants: &Table,
) -> Result<BTreeMap<String, Rules>, AllocError>
    ensures { let entries = settings.entries_of (table_view tenants.now) in
        IfOk result (IsTenantRules (settings.rules_by_tenant common.now entries)) }
{
    let mut held = BTreeMap::new(alloc);
    for (name, value) in tenants {
        let tenant = String::from_str(alloc, name.as_str())?;
        put_rules(&mut held, tenant, rules_in(common, value))?;
    }
    Ok(held)
}

/// Gives a tenant its rules, unless it has some; the names in a table differ, so it has none.
fn put_rules(
    held: &mut BTreeMap<String, Rules>,
    tenant: String,
    rules: Rules,
) -> Result<(), AllocError>
    ensures { OnOk result ((name : List ℕ) → get_by_text held.new name
        ≡ option_or (get_by_text held.old name) (if bytes_eq name (string_bytes tenant) then Some rules else None)) }
{
    held.entry(tenant)?.or_insert(rules);
    Ok(())
}

/// The rules of a tenant with this table.
fn rules_in(common: &Rules, value: &Value) -> Rules
    ensures { result ≡ settings.limits_in common.now (settings.members_in (view value.now)) }
{
    match value.as_table() {
        Some(table) => limits_in(common, table),
        None => *common,
    }
}

/// The rules of all tenants that have a table of their own.
fn all_tenants(
    alloc: Global,
    common: &Rules,
    table: &Table,
) -> Result<BTreeMap<String, Rules>, AllocError>
    ensures { let tenants = settings.members_at (codes "tenants") (table_view table.now) in
        IfOk result (IsTenantRules (settings.rules_by_tenant common.now (settings.entries_of tenants))) }
{
    match tenants_in(table) {
        Some(tenants) => tenants_of(alloc, common, tenants),
        None => Ok(BTreeMap::new(alloc)),
    }
}

impl Settings {
    ghost use Rattle.ing_limits.specs.Settings.{settings_of, settings_in};
    ghost use Rattle.ing_limits.specs.Faults.{refusal_of};
    ghost use Rattle.ing_limits.specs.Greatest.{most_bytes, most_log_bytes, most_shards, most_flushers, most_queued};
    ghost use Rattle.ing_limits.specs.Ranges.{IsUpTo, AreRulesInRange, AreSizesOf, rules_for};

    /// The settings that a TOML text gives. The text is tested in this order:
    /// 1. `NotToml`: it is no TOML document.
    /// 2. `UnknownSetting`: there is no setting of a name in it.
    /// 3. `BadSetting`: a value is out of its range or of another type.
    ///
    /// Of several unknown names, or several bad settings, the first dotted name in byte order is given. `NoMemory` may
    /// stand in place of any other answer. (Loki documentation: ingester and limits configuration; TOML, the ranges
    /// and the order of the tests are own.)
    pub fn from_toml(alloc: Global, text: &str) -> Result<Settings, SettingsFault>
        ensures settings { IfOk result (λ s. settings_of text.now ≡ Ok s) }
        ensures refused { IfErr result (λ fault. IfSome (refusal_of fault) (λ refusal.
            settings_of text.now ≡ Err refusal)) }
    {
        let table = match toml::table_from_str(alloc, text) {
            Ok(table) => table,
            Err(error) if error.is_memory() => return Err(SettingsFault::NoMemory),
            Err(_) => return Err(SettingsFault::NotToml),
        };
        if let Some(name) = first_flawed(alloc, Flaw::Unknown, &table)? {
            return Err(SettingsFault::UnknownSetting { name });
        }
        if let Some(name) = first_flawed(alloc, Flaw::Bad, &table)? {
            return Err(SettingsFault::BadSetting { name });
        }
        Ok(Settings::of_table(alloc, &table)?)
    }

    /// The settings in a table without unknown names and bad values.
    fn of_table(alloc: Global, table: &Table) -> Result<Settings, AllocError>
        ensures { IfOk result (λ s. s ≡ settings_in (table_view table.now)) }
    {
        let rules = common_rules(table);
        let tenants = all_tenants(alloc, &rules, table)?;
        Ok(Settings {
            shards: count_of(table, "shards", 1),
            flushers: count_of(table, "flushers", 1),
            flush_queue_length: count_of(table, "flush_queue_length", 1024),
            flush_check_period: setting(table, Level::Top, "flush_check_period", 0),
            checkpoint_log_size: setting(table, Level::Top, "checkpoint_log_size", 0),
            diaries: flag(table, "diaries", false),
            rules,
            tenants,
        })
    }

    /// A copy of these settings. `AllocError` where memory runs out.
    pub fn try_clone(&self) -> Result<Settings, AllocError>
        ensures { IfOk result (λ copy. copy ≡ self.now) }
    {
        Ok(Settings {
            shards: self.shards,
            flushers: self.flushers,
            flush_queue_length: self.flush_queue_length,
            flush_check_period: self.flush_check_period,
            checkpoint_log_size: self.checkpoint_log_size,
            diaries: self.diaries,
            rules: self.rules,
            tenants: self.tenants.clone()?,
        })
    }

    /// How many shards there are.
    pub fn shards(&self) -> u32
        ensures value { result ≡ self.now.shards }
        ensures range { IsUpTo most_shards result }
    {
        self.shards
    }

    /// How many flushers there are.
    pub fn flushers(&self) -> u32
        ensures value { result ≡ self.now.flushers }
        ensures range { IsUpTo most_flushers result }
    {
        self.flushers
    }

    /// How many operations the flush queue holds at most.
    pub fn flush_queue_length(&self) -> u32
        ensures value { result ≡ self.now.flush_queue_length }
        ensures range { IsUpTo most_queued result }
    {
        self.flush_queue_length
    }

    /// How many nanoseconds pass from one look for due chunks to the next; 0 where none is made by the clock.
    pub fn flush_check_period(&self) -> u64
        ensures value { result ≡ self.now.flush_check_period }
        ensures range { result < 2 ^ 63 }
    {
        self.flush_check_period
    }

    /// The length in bytes behind which the clock has a log replaced by a checkpoint; 0 where it has none replaced.
    pub fn checkpoint_log_size(&self) -> u64
        ensures value { result ≡ self.now.checkpoint_log_size }
        ensures range { result ≤ most_log_bytes }
    {
        self.checkpoint_log_size
    }

    /// Whether channels keep diaries of what is accepted, for the close to compare with what stands.
    pub fn diaries(&self) -> bool
        ensures { result ≡ self.now.diaries }
    {
        self.diaries
    }

    /// The sizes in bytes at which a block is closed and a chunk is sealed as full: no tenant has others. Takes no memory.
    pub fn sizes(&self) -> ChunkSizes
        ensures value { result ≡ record {
          block_size = self.now.rules.chunk_block_size;
          target_size = self.now.rules.chunk_target_size;
        } }
        ensures each { (tenant : List ℕ) →
            AreSizesOf result.block_size result.target_size (rules_for self.now tenant) }
        ensures range { IsUpTo most_bytes result.block_size × IsUpTo most_bytes result.target_size }
    {
        ChunkSizes {
            block_size: self.rules.chunk_block_size,
            target_size: self.rules.chunk_target_size,
        }
    }

    /// The rules of a tenant: the tenant's own, or those of all tenants where it has no table. Takes no memory, and one
    /// look-up in an ordered map of the tenants with a table; nothing is looked up where none has one.
    pub fn for_tenant(&self, tenant: &Tenant) -> &Rules
        ensures rules { result.now ≡ rules_for self.now tenant.now }
        ensures range { AreRulesInRange result.now }
    {
        if self.tenants.is_empty() {
            return &self.rules;
        }
        match self.tenants.get(tenant.as_str()) {
            Some(rules) => rules,
            None => &self.rules,
        }
    }
}
