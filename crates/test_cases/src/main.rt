//! Runs the cases in the folder that it is started in, and says how many there are. A case is a folder with
//! `input.jsonl` and `output.jsonl`, what a session reads and writes, and where there is more to say `settings.toml` and
//! `ending` (the exit status, and then what standard error gets). A file `document` names a page that shows the case, which
//! `make test` looks after. Each of one flusher is run over logs too, where nothing but what is durable may be told otherwise; and
//! over four shards, where what is told of each shard has to sum up to what one shard tells, unless a file `alone` says why it
//! holds of one alone.
#![tactic(auto)]

mod case;
mod summed;
#[cfg(test)]
mod tests;

use anyhow::{Result, bail};
use case::Case;
use std::fs;
use std::rt::Files;

fn main(rt: HostRuntime) -> Result<()> {
    let names = case_names(&rt)?;
    let mut failed = 0u64;
    for name in &names {
        if let Some(difference) = Case::read(&rt, name.as_str())?.difference(&rt)? {
            println!(rt; "{name}: another {difference}")?;
            failed = failed.saturating_add(1);
        }
    }
    println!(rt; "{} cases", names.len())?;
    if failed > 0 {
        bail!("cases failed");
    }
    Ok(())
}

/// The names of the cases, in byte order.
fn case_names<F: Files + AllocGlobal + Clone + Drop>(rt: &F) -> Result<Vec<String>> {
    let mut names = Vec::new(rt.alloc());
    for entry in fs::read_dir(rt, ".")? {
        names.push(String::from_str(rt.alloc(), entry?.file_name())?)?;
    }
    names.sort()?;
    Ok(names)
}
