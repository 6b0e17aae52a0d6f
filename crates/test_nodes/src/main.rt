//! Ingesters by lot: hands that push, flush and query at once, puts that fail, and a close. `test_nodes counts LIVES` lives two fixed
//! lives of an ingester and so many by lot, and fails where one does not close, where its report is not what the hands counted, or
//! where an entry is not found. It prints what does not vary from run to run; `lots LIVES` prints all of it. `times ENTRIES` prints how fast so many
//! entries are pushed through the locks, `pauses PUSHES` how long so many pushes take beside a flusher, and a reading of the counts
//! beside a pusher.
#![tactic(auto)]

mod done;
mod fault;
mod fixed;
mod hand;
mod kept_end;
mod life;
mod lots;
mod pauses;
mod plan;
mod speed;
mod stress;
mod sweeping;

use anyhow::{Context, Result, bail};
use pauses::pauses;
use speed::speed;
use std::env;
use stress::{Show, stress};

fn main(rt: HostRuntime) -> Result<()> {
    let mut words = env::args(&rt)?;
    let _program = words.next();
    let what = words.next().context("counts, lots, times or pauses?")?;
    let word = words.next().context("how many?")?;
    let count = word.as_str().parse::<u64>().context("how many?")?;
    match what.as_str() {
        "counts" => stress(&rt, Show::Counts, count),
        "lots" => stress(&rt, Show::All, count),
        "times" => speed(&rt, count),
        "pauses" => pauses(&rt, count),
        _ => bail!("counts, lots, times or pauses?"),
    }
}
