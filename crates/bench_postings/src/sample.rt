//! A sample of streams: eight labels each, in groups of known sizes.
use anyhow::{Result, bail};
use ing_labels::{LabelLimits, Labels};
use ing_postings::{Postings, StreamNo};
use std::alloc::Global;

const LIMITS: LabelLimits = LabelLimits {
    names: 8,
    name_bytes: 16,
    value_bytes: 16,
};

/// The labels of the stream of this number: one of `stream` alone, of `hundred` and `myriad` with so many
/// others, of `part` with one hundredth of all, and four that many streams share.
fn labels_of(alloc: Global, number: u32) -> Result<Labels> {
    let stream = format!(in alloc; "{number}")?;
    let hundred = format!(in alloc; "{}", number / 100)?;
    let myriad = format!(in alloc; "{}", number / 10_000)?;
    let part = format!(in alloc; "{}", number % 100)?;
    let app = format!(in alloc; "{}", number % 10)?;
    let zone = format!(in alloc; "{}", number % 3)?;
    let labels = Labels::of_pairs(
        alloc,
        &[
            ("stream", stream.as_str()),
            ("hundred", hundred.as_str()),
            ("myriad", myriad.as_str()),
            ("part", part.as_str()),
            ("app", app.as_str()),
            ("zone", zone.as_str()),
            ("cluster", "main"),
            ("job", "logs"),
        ],
        &LIMITS,
    )?;
    Ok(labels)
}

/// The labels of the first `size` streams.
pub fn sample(alloc: Global, size: u32) -> Result<Vec<Labels>> {
    let mut all = Vec::new(alloc);
    for number in 0..size {
        all.push(labels_of(alloc, number)?)?;
    }
    Ok(all)
}

/// An index of these streams, numbered from 0.
pub fn listed(alloc: Global, streams: &[Labels]) -> Result<Postings> {
    let mut postings = Postings::new(alloc);
    for (at, labels) in streams.iter().enumerate() {
        let number = StreamNo::new(at as u64);
        if postings.last().is_some_and(|last| last >= number) {
            bail!("the numbers do not rise");
        }
        postings.add(labels, number)?;
    }
    Ok(postings)
}
