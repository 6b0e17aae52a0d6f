//! Worked windows and shard numbers.
use ing_rows::{Tenant, shard_of, window_limit};
use std::test::Fail;

#[test]
fn half_the_age_behind_the_greatest_stamp(rt: HostRuntime) {
    for (highest, age, limit) in [(10, 4, 8), (10, 5, 8), (1, 4, 0), (0, 0, 0), (9, 1, 9)] {
        assert_eq!(rt; window_limit(highest, age), limit);
    }
}

#[test]
fn shards_by_sha_256(rt: HostRuntime) -> Result<(), Fail> {
    for (text, name, shards, shard) in [
        ("t", "{a=\"1\"}", 64, 62),
        ("acme", "{app=\"web\"}", 7, 5),
        ("t", "{a=\"1\"}", 1, 0),
    ] {
        let tenant = Tenant::of_text(rt.alloc(), text)?;
        assert_eq!(rt;
            shard_of(&tenant, name, shards),
            shard,
            "{text} {name} {shards}"
        );
    }
    Ok(())
}
