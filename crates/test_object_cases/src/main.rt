//! Reads the objects in the folder that it is started in, one a file, and prints of each what it is, or why it is none: the
//! first fault and its offset. A file `.row` is read as a row of an index, each other as a chunk, those `first_` of the first
//! version. A row has to be written again as it stands; of a chunk that is not, it is told as what it is written. Then each front of the worked chunk is read, and the chunk with each byte changed.
#![tactic(auto)]

mod changes;
mod objects;

use anyhow::Result;
use changes::{after_changes, truncated};
use objects::{chunk_told, row_told};
use std::fs;
use std::rt::Files;

fn main(rt: HostRuntime) -> Result<()> {
    for name in &file_names(&rt)? {
        let bytes = fs::read(&rt, name.as_str())?;
        let told = if name.as_str().ends_with(".row") {
            row_told(rt.alloc(), &bytes)?
        } else {
            chunk_told(rt.alloc(), &bytes)?
        };
        println!(rt; "{name}: {told}")?;
    }
    let worked = fs::read(&rt, "worked.chunk")?;
    println!(rt; "{} fronts are truncated", truncated(rt.alloc(), &worked))?;
    let changed = after_changes(rt.alloc(), &worked)?;
    println!(rt;
        "{} changes of a byte are refused, {} are written again",
        changed.refused, changed.again
    )?;
    Ok(())
}

/// The names of the files, in byte order.
fn file_names<F: Files + AllocGlobal + Clone + Drop>(rt: &F) -> Result<Vec<String>> {
    let mut names = Vec::new(rt.alloc());
    for entry in fs::read_dir(rt, ".")? {
        names.push(String::from_str(rt.alloc(), entry?.file_name())?)?;
    }
    names.sort()?;
    Ok(names)
}
