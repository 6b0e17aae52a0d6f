//! Worlds by lot: lists of events, run through `run_world` and through a slow program beside it. `test_worlds LISTS` compares
//! every reply and the gauges in the end, and for ten lists the gauges after each event too. It prints how often each event and each
//! reply was met. Where they differ it prints the shortest list that it found, and fails.
#![tactic(auto)]

mod act;
mod compare;
mod lots;
mod slow;

use anyhow::{Context, Result, bail};
use compare::{Met, differs, differs_on_the_way, shortened};
use lots::{drawn, is_in_memory};
use std::env;

/// Of the lists below this one, those whose entries stay in memory are compared after each event.
const WATCHED: u32 = 80;

fn main(rt: HostRuntime) -> Result<()> {
    let mut words = env::args(&rt)?;
    let _program = words.next();
    let word = words.next().context("how many lists?")?;
    let lists = word.as_str().parse::<u32>().context("how many lists?")?;
    let mut met = Met::default();
    let mut watched = 0usize;
    for list in 0..lists {
        let acts = drawn(rt.alloc(), list)?;
        if differs(&rt, &acts, &mut met)? {
            for act in &shortened(&rt, acts)? {
                println!(rt; "{act:?}")?;
            }
            bail!("a world and the slow program differ");
        }
        if list < WATCHED && is_in_memory(list) {
            if differs_on_the_way(&rt, &acts)? {
                bail!(
                    "a world and the slow program differ in the gauges after an event of list {list}"
                );
            }
            watched = watched.saturating_add(acts.len());
        }
    }
    met.print(&rt)?;
    println!(rt; "gauges compared after each of {watched} events")?;
    Ok(())
}
