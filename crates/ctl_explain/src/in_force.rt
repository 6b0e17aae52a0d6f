//! The settings in force.
ghost use Rattle.std.specs.Prelude.{◌≡◌, ℕ, List, Bool, is_ok, map, bytes_eq, if◌then◌else◌, Some, None};
ghost use Rattle.std.specs.Prelude.{IfOk, IfErr, OnOk, string_bytes, decimal, pos, ◌++◌, ◌<◌, ◌^◌, Ok, true};
ghost use Rattle.std.specs.BTreeMap.{get_by_text};
ghost use Rattle.std.specs.Option.{option_or};
ghost use Rattle.std.specs.List.{list_all};
ghost use Rattle.toml.specs.Data.{Data, get_member, integer};
ghost use Rattle.toml.specs.Parse.{parse_document};
ghost use Rattle.toml.specs.View.{view, table_view};
ghost use Rattle.ing_limits.specs.Durations.{duration_of};
ghost use Rattle.ing_limits.specs.Ranges.{AreRulesInRange, rules_for};
ghost use Rattle.ing_limits.specs.Settings as settings;
ghost use Rattle.ctl_explain.specs.InForce as in_force;
ghost use Rattle.ctl_explain.specs.InForce.{all_entries};

use crate::settings_refusal::SettingsRefusal;
use ing_limits::{Settings, SettingsFault, durations_are_sums_of_parts};
use ing_rows::{Rules, Tenant};
use std::alloc::{AllocError, Global};
use toml::{Table, Value};

/// The nanoseconds of an hour, a minute and a second.
const HOUR: u64 = 3_600_000_000_000;

const MINUTE: u64 = 60_000_000_000;

const SECOND: u64 = 1_000_000_000;

/// What a key is given.
#[derive(Clone, Copy)]
pub enum Given<'a> {
    /// A whole number.
    Whole(i64),
    /// A text.
    Text(&'a str),
    /// True or false.
    Flag(bool),
}

/// The keys beside the tables of tenants, each with its default (Loki documentation: ingester and limits
/// configuration; what has another default there is own).
static DEFAULTS: [(&str, Given<'static>); 16] = [
    ("shards", Given::Whole(1)),
    ("flushers", Given::Whole(1)),
    ("flush_queue_length", Given::Whole(1024)),
    ("flush_check_period", Given::Text("0s")),
    ("checkpoint_log_size", Given::Whole(0)),
    ("diaries", Given::Flag(false)),
    ("chunk_block_size", Given::Whole(262_144)),
    ("chunk_target_size", Given::Whole(1_572_864)),
    ("chunk_idle_period", Given::Text("30m")),
    ("max_chunk_age", Given::Text("2h")),
    ("max_label_names", Given::Whole(15)),
    ("max_label_name_length", Given::Whole(1024)),
    ("max_label_value_length", Given::Whole(2048)),
    ("max_line_size", Given::Whole(262_144)),
    ("max_streams_per_tenant", Given::Whole(1000)),
    ("max_entries_per_push", Given::Whole(10_000)),
];

/// The keys with their defaults.
fn defaults() -> &'static [(&'static str, Given<'static>)]
    ensures { map in_force.given_member result.now ≡ in_force.default_members }
{
    &DEFAULTS
}

/// The value that a key is given.
fn value_of(alloc: Global, given: Given<'_>) -> Result<Value, AllocError>
    ensures { IfOk result (λ value. view value ≡ in_force.given_data given.entry) }
{
    match given {
        Given::Whole(number) => Ok(Value::Integer(number)),
        Given::Text(text) => Value::string(alloc, text),
        Given::Flag(flag) => Ok(Value::Boolean(flag)),
    }
}

/// Gives a key its value, unless it has one.
fn put_value(table: &mut Table, key: String, value: Value) -> Result<(), AllocError>
    ensures found { OnOk result ((name : List ℕ) → get_by_text table.new name
        ≡ option_or (get_by_text table.old name)
        (if bytes_eq name (string_bytes key) then Some value else None)) }
    ensures kept { OnOk result ((p : List ℕ → Data → Bool) → all_entries p (table_view table.old) ≡ true
        → p (string_bytes key) (view value) ≡ true → all_entries p (table_view table.new) ≡ true) }
{
    if table.contains_key(key.as_str()) {
        return Ok(());
    }
    table.insert(key, value)?;
    Ok(())
}

/// The same of what a key is given.
fn put_absent(
    alloc: Global,
    table: &mut Table,
    key: &str,
    given: Given<'_>,
) -> Result<(), AllocError>
    ensures found { OnOk result ((name : List ℕ) → get_member name (table_view table.new)
        ≡ option_or (get_member name (table_view table.old))
        (if bytes_eq name key.now then Some (in_force.given_data given.entry) else None)) }
    ensures kept { OnOk result ((p : List ℕ → Data → Bool) → all_entries p (table_view table.old) ≡ true
        → p key.now (in_force.given_data given.entry) ≡ true → all_entries p (table_view table.new) ≡ true) }
{
    let name = String::from_str(alloc, key)?;
    let value = value_of(alloc, given)?;
    put_value(table, name, value)?;
    Ok(())
}

/// Gives each of these keys its value, unless it has one. It fails only where memory runs out; then some
/// may be given.
fn fill(alloc: Global, table: &mut Table, givens: &[(&str, Given<'_>)]) -> Result<(), AllocError>
    ensures filled { OnOk result (in_force.FillsIn (map in_force.given_member givens.now)
        (table_view table.old) (table_view table.new)) }
    ensures kept { OnOk result ((p : List ℕ → Data → Bool) → all_entries p (table_view table.old) ≡ true
        → list_all (λ e. p e.0 e.1) (map in_force.given_member givens.now) ≡ true
        → all_entries p (table_view table.new) ≡ true) }
{
    for (key, given) in givens {
        put_absent(alloc, table, key, *given)?;
    }
    Ok(())
}

/// Each key of a table has one value.
fn keys_differ(table: &Table)
    ensures { in_force.IsUniqueIn (table_view table.now) (table_view table.now) }
{
    let _ = table.len();
}

/// The text of a table of settings, which is read again as the table.
fn written(alloc: Global, table: &Table) -> Result<String, AllocError>
    requires { all_entries in_force.is_setting (table_view table.now) ≡ true }
    ensures { IfOk result (λ text. parse_document (string_bytes text) ≡ Some (table_view table.now)) }
{
    match toml::table_to_string(alloc, table) {
        Ok(text) => Ok(text),
        Err(toml::ser::Error::OutOfMemory) => Err(AllocError),
        Err(toml::ser::Error::DateInvalid) => unreachable!("no setting is a date"),
    }
}

/// The table that a text of settings is, before it is looked at.
fn table_of(alloc: Global, text: &str) -> Result<Table, SettingsRefusal>
    ensures table { IfOk result (λ table. parse_document text.now ≡ Some (table_view table)) }
    ensures err { IfErr result (in_force.TellsFault text.now) }
{
    match toml::table_from_str(alloc, text) {
        Ok(table) => Ok(table),
        Err(error) => {
            if error.is_memory() {
                Err(SettingsRefusal::NoMemory)
            } else {
                Err(SettingsRefusal::NotToml(error))
            }
        }
    }
}

/// The settings that a text gives.
fn settings_in(alloc: Global, text: &str) -> Result<Settings, SettingsRefusal>
    ensures settings { IfOk result (λ s. settings.settings_of text.now ≡ Ok s) }
    ensures err { IfErr result (in_force.TellsFault text.now) }
{
    match Settings::from_toml(alloc, text) {
        Ok(settings) => Ok(settings),
        Err(SettingsFault::NoMemory) => Err(SettingsRefusal::NoMemory),
        Err(fault) => Err(SettingsRefusal::Refused(fault)),
    }
}

/// The text of a table that gives settings, with the defaults of what it does not have.
fn filled(alloc: Global, table: Table) -> Result<String, AllocError>
    requires { is_ok (settings.settings_of_table (table_view table)) ≡ true }
    ensures { IfOk result (in_force.WritesFilled (table_view table)) }
{
    let mut table = table;
    keys_differ(&table);
    fill(alloc, &mut table, defaults())?;
    let text = written(alloc, &table)?;
    Ok(text)
}

/// The settings that a text gives, as TOML with every key beside the tables of tenants, which stand as in
/// the text: `ingestd` reads it as the same settings. It is refused exactly where `ingestd` refuses it;
/// `NoMemory` may stand in place of any other answer. (Own.)
pub fn settings_in_force(alloc: Global, text: &str) -> Result<String, SettingsRefusal>
    ensures shown { IfOk result (λ shown. (given : settings.StoreSettings)
        × (settings.settings_of text.now ≡ Ok given) × in_force.WritesOut given (string_bytes shown)) }
    ensures refused { IfErr result (in_force.TellsFault text.now) }
{
    let table = table_of(alloc, text)?;
    let _ = settings_in(alloc, text)?;
    let shown = filled(alloc, table)?;
    Ok(shown)
}

/// A count of a unit.
fn counted(alloc: Global, count: u64, unit: &str) -> Result<String, AllocError>
    ensures { IfOk result (λ text. string_bytes text ≡ decimal count ++ unit.now) }
{
    format!(in alloc; "{count}{unit}")
}

/// A number of nanoseconds in the greatest unit of which it is a multiple, as `30m`.
fn duration_text(alloc: Global, nanoseconds: u64) -> Result<String, AllocError>
    requires { nanoseconds < 2 ^ 63 }
    ensures { IfOk result (λ text. duration_of (string_bytes text) ≡ Some nanoseconds) }
{
    durations_are_sums_of_parts();
    let text = if nanoseconds % HOUR == 0 {
        counted(alloc, nanoseconds / HOUR, "h")?
    } else if nanoseconds % MINUTE == 0 {
        counted(alloc, nanoseconds / MINUTE, "m")?
    } else if nanoseconds % SECOND == 0 {
        counted(alloc, nanoseconds / SECOND, "s")?
    } else {
        counted(alloc, nanoseconds, "ns")?
    };
    Ok(text)
}

/// A rule by its name.
fn number<'a>(name: &'static str, number: u64) -> (&'static str, Given<'a>)
    requires { number < 2 ^ 63 }
    ensures { in_force.given_member result ≡ (name.now, integer (pos number)) }
{
    (name, Given::Whole(number as i64))
}

/// Each rule by its name; these texts are the durations.
fn rule_givens<'a>(rules: &Rules, idle: &'a str, age: &'a str) -> [(&'static str, Given<'a>); 10]
    requires { AreRulesInRange rules.now }
    ensures { map in_force.given_member result
        ≡ in_force.rule_members rules.now idle.now age.now }
{
    [
        number("chunk_block_size", rules.chunk_block_size),
        number("chunk_target_size", rules.chunk_target_size),
        ("chunk_idle_period", Given::Text(idle)),
        ("max_chunk_age", Given::Text(age)),
        number("max_label_names", rules.max_label_names),
        number("max_label_name_length", rules.max_label_name_length),
        number("max_label_value_length", rules.max_label_value_length),
        number("max_line_size", rules.max_line_size),
        number("max_streams_per_tenant", rules.max_streams_per_tenant),
        number("max_entries_per_push", rules.max_entries_per_push),
    ]
}

/// The text of a tenant's rules.
fn rules_text(alloc: Global, rules: &Rules) -> Result<String, AllocError>
    requires { AreRulesInRange rules.now }
    ensures { IfOk result (λ text. in_force.WritesRules rules.now (string_bytes text)) }
{
    let idle = duration_text(alloc, rules.chunk_idle_period)?;
    let age = duration_text(alloc, rules.max_chunk_age)?;
    let givens = rule_givens(rules, idle.as_str(), age.as_str());
    let mut table = Table::new(alloc);
    fill(alloc, &mut table, &givens)?;
    let text = written(alloc, &table)?;
    Ok(text)
}

/// The rules in force for a tenant, as TOML with each of them: `ingestd` reads it as settings that give
/// every tenant these rules. It fails only where memory runs out. (Own.)
pub fn rules_in_force(
    alloc: Global,
    settings: &Settings,
    tenant: &Tenant,
) -> Result<String, AllocError>
    ensures { let rules = rules_for settings.now tenant.now in
        IfOk result (λ shown. in_force.WritesRules rules (string_bytes shown)) }
{
    rules_text(alloc, settings.for_tenant(tenant))
}
