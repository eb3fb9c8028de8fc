//! Reads a stock list in CSV, or a part of one, a row at a time, and prints the faults of each row: all
//! of them, or as many at most as a word says.
#![tactic(auto)]

mod list;
mod options;
mod row;
mod spot;

use crate::list::check;
use crate::options::{Options, PROGRAM};
use anyhow::Result;
use garde_catalog::{Catalog, ENGLISH, languages};
use garde_command::{is_help, open_file, status_of};
use garde_problem::WithCodes;
use std::alloc::Global;
use std::io;
use std::io::{BufWriter, Read, Write};
use std::process::ExitCode;

/// Checks the list of a source. A fault that has a place has a code, too. The answer is whether nothing is
/// wrong.
fn check_source<R: Read + Drop, W: Write>(
    alloc: Global,
    source: R,
    options: &Options<'_>,
    catalog: &Catalog<'_>,
    out: &mut W,
) -> Result<bool> {
    match options.asked.printed() {
        Some(_) => check(alloc, source, options, &WithCodes(catalog), out),
        None => check(alloc, source, options, catalog, out),
    }
}

/// Checks the list that is asked for. The answer is whether nothing is wrong.
fn check_list(rt: &HostRuntime, options: &Options<'_>) -> Result<bool> {
    let alloc = rt.alloc();
    let catalog = Catalog::spoken(alloc, options.spoken.tag, &languages(), &ENGLISH)?;
    let mut out = BufWriter::new(alloc, io::writer(rt))?;
    let valid = match options.asked.file() {
        Some(name) => check_source(alloc, open_file(rt, name)?, options, &catalog, &mut out)?,
        None => check_source(alloc, rt.stdin(), options, &catalog, &mut out)?,
    };
    out.flush()?;
    Ok(valid)
}

/// Does what the words of the command line ask for.
fn run(rt: &HostRuntime) -> Result<ExitCode> {
    let words = PROGRAM.words(rt)?;
    if is_help(&words) {
        return PROGRAM.help(rt);
    }
    match Options::of(&words) {
        Ok(options) => Ok(status_of(check_list(rt, &options)?)),
        Err(why) => PROGRAM.reject(rt, why),
    }
}

fn main(rt: HostRuntime) -> ExitCode {
    PROGRAM.end(&rt, run(&rt))
}
