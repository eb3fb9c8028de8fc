//! The error of reading bytes with at most so many faults.
ghost use Rattle.std.specs.Prelude.{◌≡◌, Some};
ghost use Rattle.garde_schema.specs.FirstRead.{first_of_parse_error, first_of_first_error, first_read_error_text, whole_read_error};

use crate::read_error::ReadError;
use garde::{FirstError, Report};
use garde_tape::ParseError;
use std::fmt;

/// Why no value was read from bytes, with at most so many faults.
#[derive(Debug, Drop)]
pub enum FirstReadError {
    /// The bytes are not one JSON text. It is never `ParseError::Memory`, where `read_json_first`
    /// gives it.
    Parse(ParseError),
    /// All the faults of form and of the rules, in the order of the form. They are no more than
    /// were asked for.
    All(Report),
    /// The first faults, as many as were asked for. There are more.
    First(Report),
    /// Out of memory. The faults found so far are dropped.
    Memory,
}

impl FirstReadError {
    /// The same error of a read that asks for every fault: a report of either kind is the report.
    pub fn into_whole(self) -> ReadError
        ensures { result ≡ whole_read_error self }
    {
        match self {
            FirstReadError::Parse(error) => ReadError::Parse(error),
            FirstReadError::All(report) => ReadError::Report(report),
            FirstReadError::First(report) => ReadError::Report(report),
            FirstReadError::Memory => ReadError::Memory,
        }
    }
}

/// Out of memory is `FirstReadError::Memory`.
impl From<ParseError> for FirstReadError {
    ghost from_gives = { λ error read. read ≡ first_of_parse_error error };

    fn from(error: ParseError) -> FirstReadError {
        match error {
            ParseError::Memory => FirstReadError::Memory,
            other => FirstReadError::Parse(other),
        }
    }
}

impl From<FirstError> for FirstReadError {
    ghost from_gives = { λ error read. read ≡ first_of_first_error error };

    fn from(error: FirstError) -> FirstReadError {
        match error {
            FirstError::All(report) => FirstReadError::All(report),
            FirstError::First(report) => FirstReadError::First(report),
            FirstError::Memory => FirstReadError::Memory,
        }
    }
}

/// Prints why the bytes are not JSON and where, or the report, after the first faults also the line
/// `there are more`, or `out of memory`.
impl fmt::Display for FirstReadError {
    ghost output = { λ error. Some (first_read_error_text error) };

    fn fmt<W: fmt::Write>(&self, f: &mut fmt::Formatter<W>) -> fmt::Result {
        match self {
            FirstReadError::Parse(error) => error.fmt(f),
            FirstReadError::All(report) => report.fmt(f),
            FirstReadError::First(report) => writeln!(f, "{report}there are more"),
            FirstReadError::Memory => f.write_str("out of memory"),
        }
    }
}

impl std::error::Error for FirstReadError {}
