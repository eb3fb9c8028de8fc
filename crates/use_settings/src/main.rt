//! Copies files, as far as its command line goes: reads the settings by `clap`, prints every fault
//! of them on standard error, and prints what would be done.
#![tactic(auto)]

mod line;
mod settings;

use crate::line::{USAGE, matches_of, stop};
use crate::settings::{Settings, share};
use anyhow::{Result, bail};
use clap::ArgMatches;
use garde::error::Report;
use garde::{IntoValidError, Unvalidated, Valid};
use garde_command::args;
use std::process::ExitCode;

/// Prints each fault in a line, as `clap` prints its own.
fn refuse(rt: &HostRuntime, report: &Report) -> Result<ExitCode> {
    for (path, fault) in report.iter() {
        eprintln!(rt; "error: {path}: {fault}")?;
    }
    eprintln!(rt; "\nFor more information, try '--help'.")?;
    Ok(ExitCode::from(USAGE))
}

/// Prints what valid settings ask for.
fn plan(rt: &HostRuntime, settings: &Valid<Settings>) -> Result<ExitCode> {
    let count = settings.files.len();
    let jobs = settings.jobs;
    let most = share(settings);
    println!(rt; "files: {count}\njobs: {jobs}\nfiles a job at most: {most}")?;
    Ok(ExitCode::SUCCESS)
}

/// Validates the settings that a command line spells.
fn check(rt: &HostRuntime, matches: &ArgMatches<'_>) -> Result<ExitCode> {
    let alloc = rt.alloc();
    let settings = Settings::of(alloc, matches)?;
    match Unvalidated::new(settings).validate(alloc) {
        Ok(settings) => plan(rt, &settings),
        Err(IntoValidError::Report(report)) => refuse(rt, &report),
        Err(IntoValidError::Memory(_)) => bail!("out of memory"),
    }
}

fn run(rt: &HostRuntime) -> Result<ExitCode> {
    let words: Vec<String> = args(rt)?.collect(rt.alloc())?;
    match matches_of(rt.alloc(), &words) {
        Ok(matches) => check(rt, &matches),
        Err(error) => stop(rt, &words, &error),
    }
}

fn main(rt: HostRuntime) -> ExitCode {
    match run(&rt) {
        Ok(status) => status,
        Err(error) => {
            let _ = eprintln!(rt; "error: {error:#}");
            ExitCode::from(USAGE)
        }
    }
}
