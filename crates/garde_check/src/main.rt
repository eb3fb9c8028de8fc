//! Reads lines on standard input, each the name of a user, or the body of a request, and reports
//! every fault at its path.
#![tactic(auto)]

ghost use Rattle.std.specs.Prelude.{IfOk, length, ◌≤◌};

mod body;
mod form;
mod lines;
mod mode;
mod outcome;
mod output;
mod running;
mod transfer;
mod user;
mod words;

use crate::mode::Command;
use crate::outcome::{Outcome, RunError};
use crate::running::{run, run_body, run_json, run_task};
use crate::transfer::Plain;
use crate::words::{fault_line, request, status};
use std::alloc::AllocError;
use std::io::{ErrorKind, Read};
use std::process::ExitCode;
use std::{env, io};

/// How the program is called.
const USAGE: &str = "\
usage: garde_check [--most N] [--json | json]
       garde_check --nodes
Reads names on standard input, one a line, or the body of a request, and prints every fault.

  --most N  prints at most N faults, and says where there are more
  --json    prints the report as JSON
  json      reads the whole input as the body of a request, and prints the report as JSON
  --nodes   prints behind the report how many path nodes were made
  --help    prints this";

/// The byte order mark of UTF-8, which may stand at the beginning of a text.
const MARK: [u8; 3] = [0xEF, 0xBB, 0xBF];

// The words after the program's name, or `None` where one is not UTF-8.
fn words_of(rt: &HostRuntime) -> Result<Option<Vec<String>>, AllocError> {
    match env::args(rt) {
        Ok(all) => Ok(Some(all.skip(1).collect(rt.alloc())?)),
        Err(error) if error.kind() == ErrorKind::OutOfMemory => Err(AllocError),
        Err(_) => Ok(None),
    }
}

// Says in a line why nothing was run, and gives the exit status of that.
fn refused(rt: &HostRuntime, line: &str) -> ExitCode {
    let _ = eprintln!(rt; "{line}");
    ExitCode::from(2)
}

// Says that the words are wrong, and which are not.
fn wrong_words(rt: &HostRuntime) -> ExitCode {
    let _ = eprintln!(rt; "garde_check: wrong arguments\n{USAGE}");
    ExitCode::from(2)
}

// Prints how the program is called.
fn help(rt: &HostRuntime) -> ExitCode {
    match println!(rt; "{USAGE}") {
        Ok(()) => ExitCode::SUCCESS,
        Err(_) => refused(rt, fault_line(&RunError::Write)),
    }
}

// Reads bytes until the part is full or none are left, and says how many.
fn read_front<R: Read>(reader: &mut R, part: &mut [u8]) -> io::Result<usize>
    ensures { IfOk result (λ n. n ≤ length part.new) }
{
    let mut filled = 0;
    while filled < part.len() {
        match reader.read(&mut part[filled..])? {
            0 => break,
            n => filled += n,
        }
    }
    Ok(filled)
}

// Runs a command on standard input, which is read without the byte order mark at its beginning.
fn judge(rt: &HostRuntime, command: Command, most: Option<usize>) -> Result<Outcome, RunError> {
    let (alloc, mut input, mut front) = (rt.alloc(), rt.stdin(), [0; MARK.len()]);
    let Ok(read) = read_front(&mut input, &mut front) else {
        return Err(RunError::Read);
    };
    let front = &front[..read];
    let unmarked = front.strip_prefix(&MARK).unwrap_or(front);
    let mut reader = Plain::new(unmarked.chain(input));
    let mut writer = Plain::new(rt.stdout());
    match (command, most) {
        (Command::Text, None) => run(alloc, &mut reader, &mut writer, false),
        (Command::Nodes, None) => run(alloc, &mut reader, &mut writer, true),
        (Command::Json, None) => run_json(alloc, &mut reader, &mut writer),
        (Command::Body, None) => run_body(alloc, &mut reader, &mut writer),
        (command, most) => run_task(alloc, &mut reader, &mut writer, command, most),
    }
}

fn main(rt: HostRuntime) -> ExitCode {
    let words = match words_of(&rt) {
        Ok(Some(words)) => words,
        Ok(None) => return wrong_words(&rt),
        Err(AllocError) => return refused(&rt, fault_line(&RunError::Memory)),
    };
    match (words.as_slice(), request(&words)) {
        ([word], _) if word.as_str() == "--help" => help(&rt),
        (_, None) => wrong_words(&rt),
        (_, Some((command, most))) => {
            let answer = judge(&rt, command, most);
            if let Err(error) = &answer {
                let _ = eprintln!(rt; "{}", fault_line(error));
            }
            ExitCode::from(status(&answer))
        }
    }
}
