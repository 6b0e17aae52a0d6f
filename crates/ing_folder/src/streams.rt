//! The standard streams.
use std::alloc::Global;
use std::fs::File;
use std::io;
use std::os::fd::AsRawFd;
use std::rt::Files;

/// How many standard streams there are: their descriptors are 0, 1 and 2.
const STREAMS: i32 = 3;

/// Opens `/dev/null` in the place of each standard stream that is closed, and gives what holds these. A program that opens a file while
/// one is closed would get that stream's number for it, and write its replies there. (POSIX: `open` gives the lowest free number.)
pub fn hold_streams<R: Files<File = File>>(rt: &R, alloc: Global) -> io::Result<Vec<File>> {
    let mut held = Vec::new(alloc);
    for _ in 0..=STREAMS {
        let file = File::options()
            .read(true)
            .write(true)
            .open(rt, "/dev/null")?;
        if file.as_raw_fd() >= STREAMS {
            break;
        }
        held.push(file)?;
    }
    Ok(held)
}
