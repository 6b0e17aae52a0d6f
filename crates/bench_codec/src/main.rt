//! What a chunk costs to write, to read and to name. `bench/README.md` says what the figures are.
#![tactic(auto)]

mod figures;
mod sample;

use anyhow::{Context, Result, bail};
use figures::{Show, figures};
use std::env;

// `counts BYTES..` prints what a chunk with lines of so many bytes is, and `times BYTES..` what it took.
fn main(rt: HostRuntime) -> Result<()> {
    let mut words = env::args(&rt)?;
    let _program = words.next();
    let show = match words.next().context("counts or times?")?.as_str() {
        "counts" => Show::Counts,
        "times" => Show::Times,
        _ => bail!("counts or times?"),
    };
    for word in words {
        let bytes = word.as_str().parse::<u32>().context("the bytes of a line")?;
        figures(&rt, show, bytes)?;
    }
    Ok(())
}
