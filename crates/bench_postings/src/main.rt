//! What the label index costs, beside how many streams are listed. `bench/README.md` says what the figures
//! are.
#![tactic(auto)]

mod figures;
mod sample;

use anyhow::{Context, Result, bail};
use figures::{Show, grown, selected};
use std::env;

// `counts SIZE..` prints how many streams are found, and `times SIZE..` also what it took.
fn main(rt: HostRuntime) -> Result<()> {
    let mut words = env::args(&rt)?;
    let _program = words.next();
    let show = match words.next().context("counts or times?")?.as_str() {
        "counts" => Show::Counts,
        "times" => Show::Times,
        _ => bail!("counts or times?"),
    };
    let mut largest = 0;
    for word in words {
        let size = word.as_str().parse::<u32>().context("a size")?;
        grown(&rt, show, size)?;
        largest = largest.max(size);
    }
    selected(&rt, show, largest)
}
