//! Stores the valid rows of a stock list, which it reads in CSV from a file or on standard input, in a
//! SQLite file, and prints every fault of the others. Or prints the rows that such a file has.
#![tactic(auto)]

mod faults;
mod file;
mod kind;
mod list;
mod listing;
mod options;
mod storing;

use crate::options::{Options, PROGRAM, Task};
use crate::storing::store;
use anyhow::Result;
use garde_command::{is_help, open_file, status_of};
use std::process::ExitCode;

/// Stores the rows of the list that is asked for. The answer is whether all were stored.
fn store_asked(rt: &HostRuntime, options: &Options<'_>) -> Result<bool> {
    match options.asked.file() {
        Some(name) => store(rt, open_file(rt, name)?, options),
        None => store(rt, rt.stdin(), options),
    }
}

/// Does what the words of the command line ask for.
fn run(rt: &HostRuntime) -> Result<ExitCode> {
    let words = PROGRAM.words(rt)?;
    if is_help(&words) {
        return PROGRAM.help(rt);
    }
    match Task::of(&words) {
        Ok(Task::Store(options)) => Ok(status_of(store_asked(rt, &options)?)),
        Ok(Task::List(path)) => Ok(status_of(listing::list(rt, path)?)),
        Err(why) => PROGRAM.reject(rt, why),
    }
}

fn main(rt: HostRuntime) -> ExitCode {
    PROGRAM.end(&rt, run(&rt))
}
