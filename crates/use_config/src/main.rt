//! Checks the configuration of a service: reads it from a file or from standard input, in TOML or in
//! JSON, by one form, and prints each fault of form and of the rules at its path.
#![tactic(auto)]

mod check;
mod config;
mod options;
mod rely;
mod texts;

use crate::check::{Printing, check};
use crate::options::{Options, PROGRAM};
use crate::rely::Configuration;
use crate::texts::{fallback, read_texts};
use anyhow::Result;
use garde_catalog::{Catalog, ENGLISH, Table, languages};
use garde_command::{NOT_JUDGED, is_help, read_input};
use std::process::ExitCode;

/// Reads a configuration, and judges it by the texts of a catalog.
fn judge(rt: &HostRuntime, options: &Options<'_>, catalog: &Catalog<'_>) -> Result<ExitCode> {
    let body = read_input(rt, options.asked.file())?;
    let printed = options.asked.printed();
    let printing = Printing { printed, catalog };
    check(rt, printing, options.written(), &body, &mut Configuration)
}

/// Reads a configuration, and judges it by the texts of a table.
fn judge_by(rt: &HostRuntime, options: &Options<'_>, table: &Table) -> Result<ExitCode> {
    let lines = table.lines(rt.alloc())?;
    let others = fallback(options.spoken.tag).unwrap_or(&[]);
    judge(rt, options, &Catalog::lent(rt.alloc(), &lines, others)?)
}

/// Reads a configuration, and judges it in a language, or by the texts of a file if there is one.
fn judge_in(rt: &HostRuntime, options: &Options<'_>) -> Result<ExitCode> {
    let catalog = Catalog::spoken(rt.alloc(), options.spoken.tag, &languages(), &ENGLISH)?;
    let Some(file) = options.texts else {
        return judge(rt, options, &catalog);
    };
    match read_texts(rt, options, &catalog, file)? {
        Some(table) => judge_by(rt, options, &table),
        None => Ok(ExitCode::from(NOT_JUDGED)),
    }
}

/// Does what the words of the command line ask for.
fn run(rt: &HostRuntime) -> Result<ExitCode> {
    let words = PROGRAM.words(rt)?;
    if is_help(&words) {
        return PROGRAM.help(rt);
    }
    match Options::of(&words) {
        Ok(options) => judge_in(rt, &options),
        Err(why) => PROGRAM.reject(rt, why),
    }
}

fn main(rt: HostRuntime) -> ExitCode {
    PROGRAM.end(&rt, run(&rt))
}
