//! The argument words.
use clap::{Arg, ArgAction, Command};
use ing_version::VERSION;
use std::alloc::{AllocError, Global};

/// Where stamps come from.
static STAMPS: [&str; 6] = ["now", "line", "syslog", "nginx", "seconds", "milliseconds"];

/// Which entries come first.
static DIRECTIONS: [&str; 2] = ["forward", "backward"];

/// How entries are written.
static OUTPUTS: [&str; 2] = ["raw", "jsonl"];

/// What is told of the times of lines.
const FORMATS: &str = "\
Formats of the times of lines:
  now           none: stamps rise from this moment on, a nanosecond apart
  line          nanoseconds, or a time of ISO 8601 with its zone, at the beginning
  syslog        Nov 28 13:52:55 at the beginning, in UTC
  nginx         [28/Nov/2026:13:52:55 +0000], the first brackets of the line
  seconds       seconds since 1970 at the beginning, also with a fraction
  milliseconds  milliseconds since 1970 at the beginning";

/// The program with its commands.
pub fn command<'a>(alloc: Global) -> Result<Command<'a>, AllocError> {
    Command::new(alloc, "ingestctl")
        .about("A person's side of ingestd.")
        .version(VERSION)
        .subcommand_required(true)
        .arg_required_else_help(true)
        .subcommand(load(alloc)?)?
        .subcommand(wrap(alloc)?)?
        .subcommand(explain(alloc)?)?
        .subcommand(settings(alloc)?)?
        .subcommand(show(alloc)?)?
        .subcommand(check(alloc)?)?
        .subcommand(mend(alloc)?)?
        .subcommand(export(alloc)?)?
        .subcommand(refusals(alloc)?)?
        .subcommand(tick(alloc)?)?
        .subcommand(query(alloc)?)?
        .subcommand(entries(alloc)?)?
        .subcommand(next(alloc)?)
}

fn load<'a>(alloc: Global) -> Result<Command<'a>, AllocError> {
    let stamps = Arg::new(alloc, "stamps")
        .long("stamps")
        .value_name("FORMAT")
        .value_parser(STAMPS.as_slice())
        .default_value("now")
        .help("How the times of lines are written");
    let crlf = Arg::new(alloc, "crlf")
        .long("crlf")
        .action(ArgAction::SetTrue)
        .help("A carriage return at the end of a line is no part of it");
    Command::new(alloc, "load")
        .about("Lines of text, as push commands of at most 5,000 values and 8 MiB.")
        .after_help(FORMATS)
        .arg(tenant(alloc))?
        .arg(labels(alloc))?
        .arg(stamps)?
        .arg(crlf)?
        .arg(now(alloc))?
        .arg(files(alloc, "Files of lines; without one, standard input"))
}

fn wrap<'a>(alloc: Global) -> Result<Command<'a>, AllocError> {
    Command::new(alloc, "wrap")
        .about("Bodies of Loki's push API, one a line on standard input, as push commands.")
        .arg(tenant(alloc))?
        .arg(now(alloc))
}

fn explain<'a>(alloc: Global) -> Result<Command<'a>, AllocError> {
    Command::new(alloc, "explain")
        .about("What ingestd would refuse of the lines on standard input, and where.")
        .arg(
            Arg::new(alloc, "settings")
                .value_name("SETTINGS")
                .help("The settings file; without it all defaults hold"),
        )
}

fn settings<'a>(alloc: Global) -> Result<Command<'a>, AllocError> {
    Command::new(alloc, "settings")
        .about("The settings in force, with their defaults, as TOML that ingestd takes.")
        .arg(
            Arg::new(alloc, "file")
                .value_name("FILE")
                .required(true)
                .help("The settings file"),
        )?
        .arg(
            Arg::new(alloc, "tenant")
                .long("tenant")
                .value_name("TENANT")
                .help("Those for this tenant alone"),
        )
}

fn show<'a>(alloc: Global) -> Result<Command<'a>, AllocError> {
    let entries = Arg::new(alloc, "entries")
        .long("entries")
        .action(ArgAction::SetTrue)
        .help("Each entry too");
    Command::new(alloc, "show")
        .about("A stored chunk, an index row or a log, in words.")
        .arg(entries)?
        .arg(files(alloc, "Files of objects or logs").required(true))
}

fn check<'a>(alloc: Global) -> Result<Command<'a>, AllocError> {
    let folder = Arg::new(alloc, "folder")
        .value_name("FOLDER")
        .required(true)
        .help("The folder that ingestd is given; no byte of it is changed");
    let settings = Arg::new(alloc, "settings")
        .value_name("SETTINGS")
        .help("The settings file; without it all defaults hold");
    let room = Arg::new(alloc, "room")
        .long("room")
        .action(ArgAction::SetTrue)
        .help(
            "Also whether there is room for what a start writes: a file as long is written, and removed",
        );
    Command::new(alloc, "check")
        .about("What ingestd would recover from a folder, or why it would not start.")
        .arg(folder)?
        .arg(settings)?
        .arg(room)
}

fn mend<'a>(alloc: Global) -> Result<Command<'a>, AllocError> {
    let folder = Arg::new(alloc, "folder")
        .value_name("FOLDER")
        .required(true)
        .help("The folder that ingestd is given");
    let settings = Arg::new(alloc, "settings")
        .value_name("SETTINGS")
        .help("The settings file; without it all defaults hold");
    let cut = Arg::new(alloc, "cut")
        .long("cut")
        .action(ArgAction::SetTrue)
        .help(
            "Cut them there; what a log had is kept beside it. Not while a program works in the folder",
        );
    Command::new(alloc, "mend")
        .about(
            "Where the logs of a folder are damaged, as by a power cut, and what stands before that.",
        )
        .arg(folder)?
        .arg(settings)?
        .arg(cut)
}

fn export<'a>(alloc: Global) -> Result<Command<'a>, AllocError> {
    let folder = Arg::new(alloc, "folder")
        .value_name("FOLDER")
        .required(true)
        .help("The folder that ingestd is given; no byte of it is changed");
    let settings = Arg::new(alloc, "settings")
        .value_name("SETTINGS")
        .help("The settings file; without it all defaults hold");
    Command::new(alloc, "export")
        .about("All entries of a folder, each once, as push commands that ingestd takes again.")
        .arg(folder)?
        .arg(settings)
}

fn refusals<'a>(alloc: Global) -> Result<Command<'a>, AllocError> {
    Command::new(alloc, "refusals")
        .about("What a refusal means, when it comes, and what to do.")
        .arg(
            Arg::new(alloc, "which")
                .value_name("NUMBER|NAME")
                .help("Which one; without it all"),
        )
}

fn tick<'a>(alloc: Global) -> Result<Command<'a>, AllocError> {
    let checkpoint = Arg::new(alloc, "checkpoint")
        .long("checkpoint")
        .action(ArgAction::SetTrue)
        .help("A checkpoint behind them");
    Command::new(alloc, "tick")
        .about("The commands that are due from time to time: a sweep and a flush of what is due.")
        .arg(now(alloc))?
        .arg(checkpoint)
}

fn query<'a>(alloc: Global) -> Result<Command<'a>, AllocError> {
    let direction = word(
        alloc,
        "direction",
        "DIRECTION",
        "The oldest first, or the newest, as without it",
    )
    .value_parser(DIRECTIONS.as_slice());
    let pages = Arg::new(alloc, "pages")
        .long("pages")
        .action(ArgAction::SetTrue)
        .help("The reply tells where the next page begins");
    let command = Command::new(alloc, "query")
        .about("A query as a command, or why it would be refused.")
        .arg(tenant(alloc))?
        .arg(word(
            alloc,
            "query",
            "SELECTOR",
            "Which streams, as {job=\"app\"}",
        )
        .required(true))?;
    of_range(alloc, command)?
        .arg(word(
            alloc,
            "limit",
            "NUMBER",
            "At most so many entries, 1 to 5000; 100 without it",
        ))?
        .arg(direction)?
        .arg(pages)?
        .arg(now(alloc))
}

/// Takes the range of stamps of a query, too.
fn of_range<'a>(alloc: Global, command: Command<'a>) -> Result<Command<'a>, AllocError> {
    let since = word(
        alloc,
        "since",
        "DURATION",
        "From so long ago on, as 90m, 2h or 7d",
    )
    .conflicts_with("start")?;
    command
        .arg(since)?
        .arg(word(
            alloc,
            "start",
            "TIME",
            "The least stamp, or a time of RFC 3339",
        ))?
        .arg(word(
            alloc,
            "end",
            "TIME",
            "What each stamp is below, or a time of RFC 3339",
        ))
}

fn entries<'a>(alloc: Global) -> Result<Command<'a>, AllocError> {
    let output = word(
        alloc,
        "output",
        "FORMAT",
        "Each as its line, or as a JSON object",
    )
    .value_parser(OUTPUTS.as_slice())
    .default_value("raw");
    Command::new(alloc, "entries")
        .about("The entries of a reply to a query.")
        .arg(output)?
        .arg(reply(alloc))
}

fn next<'a>(alloc: Global) -> Result<Command<'a>, AllocError> {
    let asked = Arg::new(alloc, "asked")
        .value_name("ASKED")
        .required(true)
        .help("A file with the query, as ingestd was given it; it has \"pages\":true");
    Command::new(alloc, "next")
        .about("The query for the page behind a reply; nothing where that was the last one.")
        .arg(asked)?
        .arg(reply(alloc))
}

fn reply<'a>(alloc: Global) -> Arg<'a> {
    Arg::new(alloc, "reply").value_name("REPLY").help(
        "A file with the reply of ingestd; without it standard input",
    )
}

/// An argument that is given by its name.
fn word<'a>(alloc: Global, id: &'a str, value: &'a str, help: &'a str) -> Arg<'a> {
    Arg::new(alloc, id).long(id).value_name(value).help(help)
}

fn tenant<'a>(alloc: Global) -> Arg<'a> {
    Arg::new(alloc, "tenant")
        .long("tenant")
        .value_name("TENANT")
        .required(true)
        .help("Whose streams they are")
}

fn labels<'a>(alloc: Global) -> Arg<'a> {
    Arg::new(alloc, "label")
        .long("label")
        .value_name("NAME=VALUE")
        .action(ArgAction::Append)
        .required(true)
        .help("A label of the stream; as often as there are labels")
}

fn now<'a>(alloc: Global) -> Arg<'a> {
    Arg::new(alloc, "now")
        .long("now")
        .value_name("NANOSECONDS")
        .help("The time of the commands, in nanoseconds since 1970; without it this moment")
}

fn files<'a>(alloc: Global, help: &'static str) -> Arg<'a> {
    Arg::new(alloc, "files")
        .value_name("FILE")
        .num_args(0..)
        .action(ArgAction::Append)
        .help(help)
}
