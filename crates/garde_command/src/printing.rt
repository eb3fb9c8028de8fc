//! The faults of an input, printed.

use crate::program::NOT_JUDGED;
use anyhow::{Error, Result};
use garde_places::{Fault, Printed, Stop, faults_of, stop_of};
use garde_problem::{Escaped, coded_message};
use garde_report::{Path, Report};
use garde_tape::without_mark;
use std::process::ExitCode;

/// Prints faults, each in a line with its place, and returns status 1.
pub fn print_faults(
    rt: &HostRuntime,
    printed: Printed<'_>,
    mut faults: Vec<Fault<'_>>,
) -> Result<ExitCode> {
    print!(rt; "{}", printed.lines(rt.alloc(), &mut faults)?)?;
    Ok(ExitCode::FAILURE)
}

/// Prints the faults of a report of an input in JSON, and returns status 1. They are printed with their
/// places, or with their paths alone where there is no format.
pub fn print_report(
    rt: &HostRuntime,
    printed: Option<Printed<'_>>,
    body: &[u8],
    report: &Report,
) -> Result<ExitCode> {
    let Some(printed) = printed else {
        print!(rt; "{}", Escaped(rt.alloc(), report))?;
        return Ok(ExitCode::FAILURE);
    };
    let text = str::from_utf8(without_mark(body))?;
    print_faults(rt, printed, faults_of(rt.alloc(), text, report)?)
}

/// Prints where an input stops being what it is to be, under this code, and returns status 2.
pub fn print_stop(
    rt: &HostRuntime,
    printed: Printed<'_>,
    code: &str,
    stop: &Stop<'_>,
) -> Result<ExitCode> {
    let alloc = rt.alloc();
    let message = coded_message(alloc, code, stop.why, &[])?;
    let line = printed.line(alloc, stop.place, &Path::empty(), message.as_str())?;
    print!(rt; "{line}")?;
    Ok(ExitCode::from(NOT_JUDGED))
}

/// Prints where an input stops being JSON, and returns status 2.
///
/// # Errors
///
/// The one that is handed in, where there is no format, or the input is JSON and was not read for
/// another reason.
pub fn print_json_stop(
    rt: &HostRuntime,
    printed: Option<Printed<'_>>,
    body: &[u8],
    error: Error,
) -> Result<ExitCode> {
    let Some(printed) = printed else {
        return Err(error);
    };
    match stop_of(rt.alloc(), without_mark(body))? {
        Some(stop) => print_stop(rt, printed, "not_json", &stop),
        None => Err(error),
    }
}
