//! A person's side of `ingestd`: logs made into its commands, and what it reads, writes and refuses, in words. `ingestctl --help`
//! lists the commands. The exit status is 0, 1 where something that was looked at is wrong, and 2 where it could not be looked at.
#![tactic(auto)]

use ctl_program::{Status, hold_streams, run};
use std::io::BufReader;
use std::process::ExitCode;
use std::{env, io};

fn main(rt: HostRuntime) -> ExitCode {
    let status = match started(&rt) {
        Ok(status) => status,
        Err(_) => Status::Unread,
    };
    ExitCode::from(status.code())
}

/// Passes the argument words and the standard streams on.
fn started(rt: &HostRuntime) -> io::Result<Status> {
    // No file that is read may take the place of a stream that is closed.
    let _held = hold_streams(rt, rt.alloc())?;
    let mut words = Vec::new(rt.alloc());
    for word in env::args(rt)? {
        words.push(word)?;
    }
    let mut input = BufReader::new(rt.alloc(), rt.reader())?;
    let mut output = io::writer(rt);
    let errors = rt.stderr();
    Ok(run(
        rt,
        &words,
        &mut input,
        &mut output,
        &mut io::writer(&errors),
    ))
}
