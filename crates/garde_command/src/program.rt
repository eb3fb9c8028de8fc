//! What each program does with its words, and how it ends.

use crate::word::{Word, parted};
use anyhow::{Context, Error, Result, bail};
use std::alloc::Global;
use std::env::{Args, Env};
use std::fmt::Write;
use std::process::ExitCode;
use std::{env, io};

/// The status of a run that judged no input: the words are wrong, or the input is not read.
pub const NOT_JUDGED: u8 = 2;

/// A word has no more bytes, with a NUL behind it (execve(2)).
const LONGEST: usize = 128 * 1024;

/// The status of a run that judged its input: 0 where it is valid, and else 1.
pub fn status_of(is_valid: bool) -> ExitCode {
    if is_valid {
        ExitCode::SUCCESS
    } else {
        ExitCode::FAILURE
    }
}

/// A program, as its users call it.
#[derive(Clone, Copy, Debug)]
pub struct Program {
    /// The name, which begins each line on standard error.
    pub name: &'static str,
    /// How it is called.
    pub usage: &'static str,
    /// The options with a value, which is the word behind them.
    pub options: &'static [&'static str],
}

/// Whether the usage is asked for: `--help` is the only word.
pub fn is_help(words: &[Word]) -> bool {
    matches!(words, [word] if word.name.as_str() == "--help")
}

/// The words of the command line, the name of the program first.
///
/// # Errors
///
/// A word is not UTF-8: the error has its number and its bytes. Or memory ran out.
pub fn args(rt: &HostRuntime) -> Result<Args> {
    match env::args(rt) {
        Ok(texts) => Ok(texts),
        Err(error) => {
            reject_bytes(rt)?;
            Err(error).context("the command line is not read")
        }
    }
}

// Fails where a word is not UTF-8, with its number and its bytes.
fn reject_bytes(rt: &HostRuntime) -> Result<()> {
    let mut word = Vec::new(rt.alloc());
    word.resize(LONGEST, 0)?;
    for number in 1..usize::MAX {
        let Ok(len) = rt.arg(number, &mut word) else {
            break;
        };
        if str::from_utf8(&word[..len]).is_err() {
            bail!(
                "word {number} is not UTF-8: \"{}\"",
                word[..len].escape_ascii()
            );
        }
    }
    Ok(())
}

impl Program {
    /// The words behind the name of the program, each option with its value.
    pub fn words(&self, rt: &HostRuntime) -> Result<Vec<Word>> {
        let texts: Vec<String> = args(rt)?.skip(1).collect(rt.alloc())?;
        Ok(parted(rt.alloc(), texts, self.options)?)
    }

    /// Prints the usage, and returns status 0.
    pub fn help(&self, rt: &HostRuntime) -> Result<ExitCode> {
        println!(rt; "{}", self.usage)?;
        Ok(ExitCode::SUCCESS)
    }

    /// Prints on standard error why words are wrong, and the usage. Returns status 2.
    pub fn reject(&self, rt: &HostRuntime, why: &str) -> Result<ExitCode> {
        eprintln!(rt; "{}: {why}\n{}", self.name, self.usage)?;
        Ok(ExitCode::from(NOT_JUDGED))
    }

    /// The status of a run. Of one that failed it prints why on standard error, in one line, and returns
    /// status 2.
    pub fn end(&self, rt: &HostRuntime, run: Result<ExitCode>) -> ExitCode {
        match run {
            Ok(status) => status,
            Err(error) => {
                let _ = self.complain(rt, &error);
                ExitCode::from(NOT_JUDGED)
            }
        }
    }

    fn complain(&self, rt: &HostRuntime, error: &Error) -> io::Result<()> {
        let name = self.name;
        match in_one_line(rt.alloc(), error) {
            Ok(line) => eprintln!(rt; "{name}: {line}"),
            Err(_) => eprintln!(rt; "{name}: out of memory"),
        }
    }
}

// An error in one line. A name in it may come from anyone, so what is not shown is escaped, and a line
// feed is printed as a comma.
fn in_one_line(alloc: Global, error: &Error) -> Result<String> {
    let message = format!(in alloc; "{error:#}")?;
    let mut line = String::new(alloc);
    for c in message.as_str().chars() {
        match c {
            '\n' => line.push_str(", ")?,
            '"' | '\'' | '\\' => line.push(c)?,
            _ => write!(line, "{}", c.escape_debug())?,
        }
    }
    Ok(line)
}
