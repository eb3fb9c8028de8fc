//! The command line, in the words of `clap`.
use anyhow::Result;
use clap::{Arg, ArgAction, ArgMatches, Command, Error, value_parser};
use std::alloc::{AllocError, Global};
use std::process::ExitCode;

/// The status of a command line that is rejected, as `clap` has it.
pub const USAGE: u8 = 2;

/// What the words of a command line are read as; the first word is the name of the program.
pub fn matches_of<'a>(alloc: Global, words: &'a [String]) -> Result<ArgMatches<'a>, Error> {
    command(alloc)?.try_get_matches_from(words)
}

/// The options and the files.
fn command<'a>(alloc: Global) -> Result<Command<'a>, AllocError> {
    options(alloc)?.arg(files(alloc))
}

/// The options.
fn options<'a>(alloc: Global) -> Result<Command<'a>, AllocError> {
    Command::new(alloc, "use_settings")
        .about("Copies files")
        .arg(jobs(alloc))?
        .arg(remote(alloc))?
        .arg(upload(alloc))
}

fn jobs<'a>(alloc: Global) -> Arg<'a> {
    Arg::new(alloc, "jobs")
        .long("jobs")
        .help("How many jobs copy, 1 to 16")
        .value_parser(value_parser!(u8))
        .default_value("4")
}

fn remote<'a>(alloc: Global) -> Arg<'a> {
    Arg::new(alloc, "remote")
        .long("remote")
        .help("The address of version 4 that files are uploaded to")
}

fn upload<'a>(alloc: Global) -> Arg<'a> {
    Arg::new(alloc, "upload")
        .long("upload")
        .help("Uploads the files, which wants --remote")
        .action(ArgAction::SetTrue)
}

fn files<'a>(alloc: Global) -> Arg<'a> {
    Arg::new(alloc, "FILE")
        .help("1 to 3 files whose names end with .csv")
        .action(ArgAction::Append)
}

/// Whether a word has a character that acts on a terminal.
fn has_control(word: &str) -> bool {
    word.chars().any(|c| c.is_control())
}

/// Prints what `clap` says in place of settings, and returns the status. An error of it repeats words, and
/// one with a control character could forge a line.
pub fn stop(rt: &HostRuntime, words: &[String], error: &Error) -> Result<ExitCode> {
    if !error.use_stderr() {
        error.print(rt)?;
        return Ok(ExitCode::SUCCESS);
    }
    if words.iter().any(|word| has_control(word.as_str())) {
        eprintln!(rt; "error: a word has a control character")?;
    } else {
        error.print(rt)?;
    }
    Ok(ExitCode::from(USAGE))
}
