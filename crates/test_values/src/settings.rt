//! Worked settings, and each refusal with the name that it gives, which the program does not print.
use ing_limits::{Settings, SettingsFault};
use ing_rows::{Rules, Tenant};
use std::alloc::Global;
use std::test::Fail;

/// The number of a refusal and the setting that it names.
fn refusal(alloc: Global, text: &str) -> Option<(u32, String)> {
    match Settings::from_toml(alloc, text) {
        Ok(_) => None,
        Err(fault) => {
            let number = fault.refusal().number();
            match fault {
                SettingsFault::UnknownSetting { name } | SettingsFault::BadSetting { name } => {
                    Some((number, name))
                }
                SettingsFault::NoMemory | SettingsFault::NotToml => {
                    Some((number, String::new(alloc)))
                }
            }
        }
    }
}

fn is_refused(alloc: Global, text: &str, number: u32, name: &str) -> bool {
    match refusal(alloc, text) {
        Some((found, setting)) => found == number && setting.as_str() == name,
        None => false,
    }
}

#[test]
fn refusals(rt: HostRuntime) {
    for (text, number, name) in [
        ("shards = \n", 10, ""),
        ("shards = 1\nshards = 2\n", 10, ""),
        ("shards = 65\n", 12, "shards"),
        ("shards = 0\n", 12, "shards"),
        ("shards = -1\n", 12, "shards"),
        ("shards = \"1\"\n", 12, "shards"),
        ("max_chunk_age = \"1.5h\"\n", 12, "max_chunk_age"),
        ("max_chunk_age = \"\"\n", 12, "max_chunk_age"),
        ("max_chunk_age = 7200\n", 12, "max_chunk_age"),
        (
            "max_chunk_age = \"9223372036854775808ns\"\n",
            12,
            "max_chunk_age",
        ),
        ("chunk_retain_period = \"1m\"\n", 11, "chunk_retain_period"),
        ("tenants = 1\n", 12, "tenants"),
        ("[tenants]\nacme = 1\n", 12, "tenants.acme"),
        ("[tenants.\"a/b\"]\nmax_line_size = 1\n", 12, "tenants.a/b"),
        ("[tenants.acme]\nshards = 1\n", 11, "tenants.acme.shards"),
        ("[tenants.\"a/b\"]\nshards = 1\n", 11, "tenants.a/b.shards"),
        // Of several names the first in byte order.
        ("zone = 1\narea = 1\nshards = 0\n", 11, "area"),
        ("shards = 0\nflushers = 0\n", 12, "flushers"),
        (
            "shards = 0\n[tenants.acme]\nmax_line_size = 1\nburst = 1\n",
            11,
            "tenants.acme.burst",
        ),
        (
            "[tenants.a]\nz = 1\n[tenants.\"a-\"]\nb = 1\n",
            11,
            "tenants.a-.b",
        ),
    ] {
        assert!(rt; is_refused(rt.alloc(), text, number, name), "{text}");
    }
}

/// Each setting that is no rule, two rules for all tenants and one for `acme`.
const ALL: &str =
    "shards = 64\nflushers = 32\nflush_queue_length = 65536\nchunk_idle_period = \"1h30m\"\nmax_chunk_age = \"1s2ms3us4ns\"\nmax_line_size = 100\n[tenants.acme]\nmax_label_names = 64\n";

#[test]
fn settings_and_rules_of_all_tenants_and_of_one(rt: HostRuntime) -> Result<(), Fail> {
    let settings = Settings::from_toml(rt.alloc(), ALL)?;
    assert_eq!(rt; settings.shards(), 64);
    assert_eq!(rt; settings.flushers(), 32);
    assert_eq!(rt; settings.flush_queue_length(), 65536);
    for (name, max_label_names) in [("acme", 64), ("other", 15)] {
        let tenant = Tenant::of_text(rt.alloc(), name)?;
        let wanted = Rules {
            chunk_idle_period: 5_400_000_000_000,
            max_chunk_age: 1_002_003_004,
            max_line_size: 100,
            max_label_names,
            ..Rules::default()
        };
        assert_eq!(rt; *settings.for_tenant(&tenant), wanted, "{name}");
    }
    Ok(())
}

/// One allocation at most is refused in a run of this test: the text is then refused with `NoMemory`, and read the next
/// time.
#[test]
fn a_refused_allocation_and_the_next_reading(rt: HostRuntime) -> Result<(), Fail> {
    let text = "shards = 2\n[tenants.acme]\nmax_line_size = 4\n";
    let settings = match Settings::from_toml(rt.alloc(), text) {
        Ok(settings) => settings,
        Err(fault) => {
            assert_eq!(rt; fault.refusal().name(), "NoMemory");
            Settings::from_toml(rt.alloc(), text)?
        }
    };
    assert_eq!(rt; settings.shards(), 2);
    Ok(())
}
