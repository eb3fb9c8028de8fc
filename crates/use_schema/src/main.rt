//! Checks a JSON text by a JSON Schema, and prints each fault at its path, in the language of the
//! reader.
#![tactic(auto)]

mod options;

use crate::options::{Options, PROGRAM};
use anyhow::Result;
use garde::{I18n, Report};
use garde_catalog::{Catalog, ENGLISH, languages};
use garde_command::{NOT_JUDGED, is_help, print_json_stop, print_report, read_input, status_of};
use garde_described::{META_SCHEMA, MetaSchema, Schema};
use garde_places::{Format, Printed};
use garde_problem::WithCodes;
use garde_schema::{
    FirstReadError, FormI18n, ReadError, Scratch, Tree, parse, parse_bytes, read_json,
    read_json_first,
};
use std::process::ExitCode;

/// Prints the faults of a report, and that there are more.
fn print_first(
    rt: &HostRuntime,
    options: &Options<'_>,
    body: &[u8],
    report: &Report,
) -> Result<ExitCode> {
    let status = print_report(rt, options.asked.printed(), body, report)?;
    eprintln!(rt; "use_schema: there are more")?;
    Ok(status)
}

/// Checks a body by a schema.
fn check<'a, H: I18n + FormI18n>(
    rt: &HostRuntime,
    options: &Options<'_>,
    schema: Tree<'_, 'a>,
    body: &'a [u8],
    scratch: &'a mut Scratch,
    h: &H,
) -> Result<ExitCode> {
    let printed = options.asked.printed();
    let form = Schema::new(schema);
    match read_json_first(rt.alloc(), body, scratch, &form, options.most, h) {
        Ok(()) => Ok(status_of(true)),
        Err(FirstReadError::All(report)) => print_report(rt, printed, body, &report),
        Err(FirstReadError::First(report)) => print_first(rt, options, body, &report),
        Err(error) => print_json_stop(rt, printed, body, error.into()),
    }
}

/// Prints the faults of a schema, by which nothing is judged, each with its place.
fn reject(
    rt: &HostRuntime,
    options: &Options<'_>,
    text: &[u8],
    error: ReadError,
) -> Result<ExitCode> {
    let format = match options.asked.printed() {
        Some(printed) => printed.format,
        None => Format::Short,
    };
    let printed = Some(Printed {
        format,
        file: options.schema,
    });
    match error {
        ReadError::Report(report) => {
            print_report(rt, printed, text, &report)?;
            Ok(ExitCode::from(NOT_JUDGED))
        }
        error => print_json_stop(rt, printed, text, error.into()),
    }
}

/// Whether a text is a schema, and if not, why.
fn check_schema<H: I18n + FormI18n>(
    rt: &HostRuntime,
    text: &[u8],
    h: &H,
) -> Result<Result<(), ReadError>> {
    let (mut of_meta, mut scratch) = (Scratch::new(rt.alloc()), Scratch::new(rt.alloc()));
    let tape = parse(rt.alloc(), META_SCHEMA, &mut of_meta)?;
    let meta = MetaSchema(Schema::new(Tree::root(&tape)));
    Ok(read_json(rt.alloc(), text, &mut scratch, &meta, h))
}

/// Reads a schema, and checks a body by it.
fn judge<H: I18n + FormI18n>(rt: &HostRuntime, options: &Options<'_>, h: &H) -> Result<ExitCode> {
    let text = read_input(rt, Some(options.schema))?;
    if let Err(error) = check_schema(rt, &text, h)? {
        return reject(rt, options, &text, error);
    }
    let body = read_input(rt, options.asked.file())?;
    let (mut of_schema, mut of_body) = (Scratch::new(rt.alloc()), Scratch::new(rt.alloc()));
    let tape = parse_bytes(rt.alloc(), &text, &mut of_schema)?;
    check(rt, options, Tree::root(&tape), &body, &mut of_body, h)
}

/// Does what the words of the command line ask for. A fault that has a place has a code, too.
fn run(rt: &HostRuntime) -> Result<ExitCode> {
    let words = PROGRAM.words(rt)?;
    if is_help(&words) {
        return PROGRAM.help(rt);
    }
    let options = match Options::of(&words) {
        Ok(options) => options,
        Err(why) => return PROGRAM.reject(rt, why),
    };
    let catalog = Catalog::spoken(rt.alloc(), options.spoken.tag, &languages(), &ENGLISH)?;
    match options.asked.printed() {
        Some(_) => judge(rt, &options, &WithCodes(&catalog)),
        None => judge(rt, &options, &catalog),
    }
}

fn main(rt: HostRuntime) -> ExitCode {
    PROGRAM.end(&rt, run(&rt))
}
