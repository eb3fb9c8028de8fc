//! The error of reading bytes.
ghost use Rattle.std.specs.Prelude.{◌≡◌, Some};
ghost use Rattle.garde_schema.specs.Bytes.{of_parse_error, of_validate_error, read_error_text};

use garde::{Report, ValidateError};
use garde_tape::ParseError;
use std::fmt;

/// Why no value was read from bytes.
#[derive(Debug, Drop)]
pub enum ReadError {
    /// The bytes are not one JSON text. It is never `ParseError::Memory`, where `read_json` gives it.
    Parse(ParseError),
    /// The faults of form and of the rules, in the order of the form.
    Report(Report),
    /// Out of memory. The faults found so far are dropped.
    Memory,
}

/// Out of memory is `ReadError::Memory`.
impl From<ParseError> for ReadError {
    ghost from_gives = { λ error read. read ≡ of_parse_error error };

    fn from(error: ParseError) -> ReadError {
        match error {
            ParseError::Memory => ReadError::Memory,
            other => ReadError::Parse(other),
        }
    }
}

impl From<ValidateError> for ReadError {
    ghost from_gives = { λ error read. read ≡ of_validate_error error };

    fn from(error: ValidateError) -> ReadError {
        match error {
            ValidateError::Report(report) => ReadError::Report(report),
            ValidateError::Memory => ReadError::Memory,
        }
    }
}

/// Prints why the bytes are not JSON and where, or the report, or `out of memory`.
impl fmt::Display for ReadError {
    ghost output = { λ error. Some (read_error_text error) };

    fn fmt<W: fmt::Write>(&self, f: &mut fmt::Formatter<W>) -> fmt::Result {
        match self {
            ReadError::Parse(error) => write!(f, "{error}"),
            ReadError::Report(report) => write!(f, "{report}"),
            ReadError::Memory => f.write_str("out of memory"),
        }
    }
}

impl std::error::Error for ReadError {}
