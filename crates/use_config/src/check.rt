//! An input in TOML or JSON, and what is printed where it is not valid.

use crate::options::Written;
use anyhow::{Context, Error, Result, anyhow, bail};
use garde::{I18n, Report};
use garde_catalog::Catalog;
use garde_command::{print_faults, print_json_stop, print_report, print_stop};
use garde_places::{Printed, listed_faults_of, stop_of_utf8};
use garde_problem::WithCodes;
use garde_schema::{FormI18n, ReadError};
use garde_tape::without_mark;
use garde_toml::{Placed, TomlError, toml_to_json, toml_to_json_with_places};
use std::alloc::Global;
use std::process::ExitCode;

/// What an input is read as.
pub trait Input {
    /// Reads an input in JSON. Of one that is valid it does what is asked, and else the answer is why it
    /// is not.
    fn judge<H: I18n + FormI18n>(
        &mut self,
        rt: &HostRuntime,
        json: &[u8],
        h: &H,
    ) -> Result<Option<ReadError>>;
}

/// How the faults of an input are printed: with their places or without, and by which texts.
#[derive(Clone, Copy)]
pub struct Printing<'a> {
    pub printed: Option<Printed<'a>>,
    pub catalog: &'a Catalog<'a>,
}

/// Judges an input in JSON. A fault that has a place has a code, too.
fn judge<I: Input>(
    rt: &HostRuntime,
    printing: Printing<'_>,
    json: &[u8],
    input: &mut I,
) -> Result<Option<ReadError>> {
    match printing.printed {
        Some(_) => input.judge(rt, json, &WithCodes(printing.catalog)),
        None => input.judge(rt, json, printing.catalog),
    }
}

/// Why an input was not read, by the texts of the catalog where no place is printed.
fn reason(alloc: Global, printing: Printing<'_>, error: ReadError) -> Result<Error> {
    match error {
        ReadError::Parse(error) if printing.printed.is_none() => {
            Ok(anyhow!("{}", printing.catalog.parse_error(alloc, &error)?))
        }
        error => Ok(error.into()),
    }
}

/// Judges an input in JSON, and prints its faults.
fn check_json<I: Input>(
    rt: &HostRuntime,
    printing: Printing<'_>,
    body: &[u8],
    input: &mut I,
) -> Result<ExitCode> {
    match judge(rt, printing, body, input)? {
        None => Ok(ExitCode::SUCCESS),
        Some(ReadError::Report(report)) => print_report(rt, printing.printed, body, &report),
        Some(error) => {
            let error = reason(rt.alloc(), printing, error)?;
            print_json_stop(rt, printing.printed, body, error)
        }
    }
}

/// Prints the faults of a report of a text in TOML.
fn print_toml_report(
    rt: &HostRuntime,
    printed: Option<Printed<'_>>,
    text: &str,
    report: &Report,
) -> Result<ExitCode> {
    let Some(printed) = printed else {
        return print_report(rt, None, text.as_bytes(), report);
    };
    let Placed { json, places } = toml_to_json_with_places(rt.alloc(), text)?;
    let faults = listed_faults_of(rt.alloc(), json.as_str(), places, report)?;
    print_faults(rt, printed, faults)
}

/// Prints where a text stops being TOML, or fails with the reason where no place is printed.
fn print_toml_stop(
    rt: &HostRuntime,
    printed: Option<Printed<'_>>,
    text: &str,
    error: &TomlError,
) -> Result<ExitCode> {
    if let (Some(printed), Some(stop)) = (printed, error.stop(text)) {
        return print_stop(rt, printed, "not_toml", &stop);
    }
    let message = format!(in rt.alloc(); "{error}")?;
    bail!("{}", message.as_str().trim_end())
}

/// Judges an input in TOML, and prints its faults.
fn check_toml<I: Input>(
    rt: &HostRuntime,
    printing: Printing<'_>,
    text: &str,
    input: &mut I,
) -> Result<ExitCode> {
    let json = match toml_to_json(rt.alloc(), text) {
        Ok(json) => json,
        Err(error) => return print_toml_stop(rt, printing.printed, text, &error),
    };
    match judge(rt, printing, json.as_bytes(), input)? {
        None => Ok(ExitCode::SUCCESS),
        Some(ReadError::Report(report)) => print_toml_report(rt, printing.printed, text, &report),
        Some(error) => Err(reason(rt.alloc(), printing, error)?),
    }
}

/// Reads an input, and prints its faults.
pub fn check<I: Input>(
    rt: &HostRuntime,
    printing: Printing<'_>,
    written: Written,
    body: &[u8],
    input: &mut I,
) -> Result<ExitCode> {
    match (written, str::from_utf8(body)) {
        (Written::Json, _) => check_json(rt, printing, body, input),
        (Written::Toml, Ok(text)) => check_toml(rt, printing, text, input),
        (Written::Toml, Err(error)) => match (printing.printed, stop_of_utf8(without_mark(body))) {
            (Some(printed), Some(stop)) => print_stop(rt, printed, "not_toml", &stop),
            _ => Err(error).context("the configuration is not read"),
        },
    }
}
