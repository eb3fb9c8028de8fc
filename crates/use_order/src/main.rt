//! Reads a page of orders in JSON, from a file or from standard input. Where all of them are valid it
//! confirms each of them, else it prints the faults of form and of the rules: all of them, or as many
//! at most as a word says.
#![tactic(auto)]

mod options;
mod order;
mod rely;

use crate::options::{Options, PROGRAM};
use crate::rely::{accept, read_input};
use anyhow::Result;
use garde::{DefaultI18n, I18n, Report};
use garde_command::{is_help, print_json_stop, print_report};
use garde_places::Printed;
use garde_problem::WithCodes;
use garde_schema::{FirstReadError, FormI18n, Scratch};
use std::process::ExitCode;

/// Prints the faults of a report, and that there are more.
fn print_first(
    rt: &HostRuntime,
    printed: Option<Printed<'_>>,
    body: &[u8],
    report: &Report,
) -> Result<ExitCode> {
    let status = print_report(rt, printed, body, report)?;
    match printed {
        Some(_) => eprintln!(rt; "use_order: there are more")?,
        None => println!(rt; "there are more")?,
    }
    Ok(status)
}

/// Accepts a page, or prints its faults: with their paths, and with their places where that is asked
/// for.
fn judge<H: I18n + FormI18n>(rt: &HostRuntime, options: Options<'_>, h: &H) -> Result<ExitCode> {
    let body = garde_command::read_input(rt, options.asked.file())?;
    let printed = options.asked.printed();
    let mut scratch = Scratch::new(rt.alloc());
    match read_input(rt.alloc(), &body, &mut scratch, options.most, h) {
        Ok(input) => accept(rt, input),
        Err(FirstReadError::All(report)) => print_report(rt, printed, &body, &report),
        Err(FirstReadError::First(report)) => print_first(rt, printed, &body, &report),
        Err(error) => print_json_stop(rt, printed, &body, error.into()),
    }
}

/// Does what the words of the command line ask for. A fault that has a place has a code, too.
fn run(rt: &HostRuntime) -> Result<ExitCode> {
    let words = PROGRAM.words(rt)?;
    if is_help(&words) {
        return PROGRAM.help(rt);
    }
    match Options::of(&words) {
        Ok(options) if options.asked.printed().is_some() => {
            judge(rt, options, &WithCodes(DefaultI18n))
        }
        Ok(options) => judge(rt, options, &DefaultI18n),
        Err(why) => PROGRAM.reject(rt, why),
    }
}

fn main(rt: HostRuntime) -> ExitCode {
    PROGRAM.end(&rt, run(&rt))
}
