//! The figures.
use crate::sample::{listed, sample};
use anyhow::Result;
use ing_labels::Selector;
use ing_postings::Postings;
use std::alloc::Global;
use std::rt::Clock;
use std::time::{Duration, Instant};

/// How many streams a figure of a selector is taken over, at least.
const FOUND_IN_ALL: u32 = 200_000;

/// The selectors: of one, two and four matchers, for 1, 100 and 10,000 streams.
const SELECTORS: [&str; 9] = [
    "{stream=\"77\"}",
    "{stream=\"77\", job=\"logs\"}",
    "{stream=\"77\", job=\"logs\", app!=\"x\", cluster=\"main\"}",
    "{hundred=\"0\"}",
    "{hundred=\"0\", job=\"logs\"}",
    "{hundred=\"0\", job=\"logs\", app!=\"x\", cluster=\"main\"}",
    "{myriad=\"0\"}",
    "{myriad=\"0\", job=\"logs\"}",
    "{myriad=\"0\", job=\"logs\", app!=\"x\", cluster=\"main\"}",
];

/// What is printed.
#[derive(Clone, Copy)]
pub enum Show {
    /// How many streams are found.
    Counts,
    /// That, and what it took.
    Times,
}

/// The time of each of `count` steps, in nanoseconds.
fn each(time: Duration, count: u32) -> u128 {
    time.as_nanos() / u128::from(count.max(1))
}

/// Lists so many streams, and selects each hundredth of them in turn.
pub fn grown<R: AllocGlobal + Clock + Print>(rt: &R, show: Show, size: u32) -> Result<()> {
    let streams = sample(rt.alloc(), size)?;
    let start = Instant::now(rt)?;
    let postings = listed(rt.alloc(), &streams)?;
    let adding = start.elapsed(rt)?;
    let selectors = parts(rt.alloc())?;
    let mut found = 0;
    let start = Instant::now(rt)?;
    for selector in &selectors {
        found = postings.select(rt.alloc(), selector)?.len();
    }
    let selecting = start.elapsed(rt)?;
    match show {
        Show::Counts => println!(rt; "{size} streams listed, {found} in a hundredth")?,
        Show::Times => {
            let add = each(adding, size);
            let select = each(selecting, size);
            println!(rt;
                "{size} streams listed: add {add} ns a stream, select each hundredth {select} ns a stream"
            )?;
        }
    }
    Ok(())
}

/// The selectors of the hundred parts.
fn parts(alloc: Global) -> Result<Vec<Selector>> {
    let mut selectors = Vec::new(alloc);
    for part in 0..100u32 {
        let text = format!(in alloc; "{{part=\"{part}\"}}")?;
        selectors.push(Selector::parse(alloc, text.as_str())?)?;
    }
    Ok(selectors)
}

/// The figures of all selectors over so many streams.
pub fn selected<R: AllocGlobal + Clock + Print>(rt: &R, show: Show, size: u32) -> Result<()> {
    let streams = sample(rt.alloc(), size)?;
    let postings = listed(rt.alloc(), &streams)?;
    for text in &SELECTORS {
        figure(rt, show, &postings, text)?;
    }
    Ok(())
}

/// The figure of one selector.
fn figure<R: AllocGlobal + Clock + Print>(
    rt: &R,
    show: Show,
    postings: &Postings,
    text: &str,
) -> Result<()> {
    let selector = Selector::parse(rt.alloc(), text)?;
    let found = postings.select(rt.alloc(), &selector)?.len();
    match show {
        Show::Counts => println!(rt; "{text}: {found} streams")?,
        Show::Times => {
            let found = u32::try_from(found)?.max(1);
            let rounds = FOUND_IN_ALL / found + 1;
            let start = Instant::now(rt)?;
            for _ in 0..rounds {
                postings.select(rt.alloc(), &selector)?;
            }
            let time = start.elapsed(rt)?;
            let selection = each(time, rounds);
            let stream = selection / u128::from(found);
            println!(rt; "{text}: {found} streams, {selection} ns, {stream} ns a stream")?;
        }
    }
    Ok(())
}
