//! Whether `ingestd` takes the names of labels.
use crate::given::settings;
use anyhow::{Result, bail};
use ctl_explain::explain;
use serde_json::{Map, Value, json, put as put_member};
use std::alloc::{AllocError, Global};

/// Fails at the first argument, as `job=app`, whose name no settings let `ingestd` take.
pub fn test_labels(rt: &HostRuntime, words: &[&str]) -> Result<()> {
    let alloc = rt.alloc();
    let defaults = settings(rt, None)?;
    for word in words {
        let name = word.split('=').next().unwrap_or("");
        let line = push_of(alloc, name)?.to_vec(alloc)?;
        if explain(alloc, &defaults, &line)?.is_refused() {
            bail!("--label: {word}: a name has letters, digits and _ alone, and no digit first");
        }
    }
    Ok(())
}

/// A push for a stream with one label of this name.
fn push_of(alloc: Global, name: &str) -> Result<Value, AllocError> {
    let mut labels = Map::new(alloc);
    put_member(&mut labels, alloc, name, Value::try_from_str(alloc, "x")?)?;
    json!(in alloc; {
        "cmd": "push",
        "now": "0",
        "streams": [{"stream": Value::Object(labels), "values": []}],
        "tenant": "t"
    })
}
