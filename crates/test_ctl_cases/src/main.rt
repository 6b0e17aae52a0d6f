//! Runs the cases of `ingestctl` in the folder that it is started in, and says how many there are. A case is a folder with
//! `arguments`, a word a line, and `output`; where there is more to say `input`, `errors`, what is told on standard error, and
//! `status`, the exit status. Further files are those that the arguments name, from the folder of the cases on.
#![tactic(auto)]

use anyhow::{Result, bail};
use ctl_program::run;
use std::rt::Files;
use std::{fs, io};

fn main(rt: HostRuntime) -> Result<()> {
    let names = case_names(&rt)?;
    let mut failed = 0u64;
    for name in &names {
        if let Some(difference) = difference(&rt, name.as_str())? {
            println!(rt; "{name}: another {difference}")?;
            failed = failed.saturating_add(1);
        }
    }
    println!(rt; "{} cases", names.len())?;
    if failed > 0 {
        bail!("cases failed");
    }
    Ok(())
}

/// The names of the cases, in byte order.
fn case_names<F: Files + AllocGlobal + Clone + Drop>(rt: &F) -> Result<Vec<String>> {
    let mut names = Vec::new(rt.alloc());
    for entry in fs::read_dir(rt, ".")? {
        names.push(String::from_str(rt.alloc(), entry?.file_name())?)?;
    }
    names.sort()?;
    Ok(names)
}

/// What differs from what has to come out of a case, if anything does.
fn difference(rt: &HostRuntime, name: &str) -> Result<Option<&'static str>> {
    let alloc = rt.alloc();
    let words = words_in(rt, name)?;
    let input = bytes_or(rt, name, "input", b"")?;
    let (mut output, mut errors) = (Vec::new(alloc), Vec::new(alloc));
    let status = run(rt, &words, &mut input.as_slice(), &mut output, &mut errors);
    if output != bytes_or(rt, name, "output", b"")? {
        return Ok(Some("output"));
    }
    if errors != bytes_or(rt, name, "errors", b"")? {
        return Ok(Some("text of errors"));
    }
    let code = format!(in alloc; "{}\n", status.code())?;
    if code.as_bytes() != bytes_or(rt, name, "status", b"0\n")?.as_slice() {
        return Ok(Some("status"));
    }
    Ok(None)
}

/// The argument words of a case, behind the name of the program.
fn words_in(rt: &HostRuntime, name: &str) -> Result<Vec<String>> {
    let alloc = rt.alloc();
    let path = format!(in alloc; "{name}/arguments")?;
    let text = fs::read_to_string(rt, path.as_str())?;
    let mut words = Vec::new(alloc);
    words.push(String::from_str(alloc, "ingestctl")?)?;
    for word in text.lines() {
        words.push(String::from_str(alloc, word)?)?;
    }
    Ok(words)
}

/// The bytes of a file of a case; these where there is none.
fn bytes_or(rt: &HostRuntime, name: &str, file: &str, absent: &[u8]) -> Result<Vec<u8>> {
    let path = format!(in rt.alloc(); "{name}/{file}")?;
    match fs::read(rt, path.as_str()) {
        Err(error) if error.kind() == io::ErrorKind::NotFound => Ok(absent.to_vec(rt.alloc())?),
        read => Ok(read?),
    }
}
