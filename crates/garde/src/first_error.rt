//! The error of validation that reports at most so many faults.
ghost use Rattle.std.specs.Prelude.{◌≡◌, Some};
ghost use Rattle.garde.specs.FirstError.{first_error_text, whole_error};

use crate::validate_error::ValidateError;
use garde_report::Report;
use std::fmt;

/// Why a value is not valid, with at most so many of its faults, or that memory ran out.
#[derive(Debug, Drop)]
pub enum FirstError {
    /// All the faults, in the order of the walk. They are no more than were asked for.
    All(Report),
    /// The first faults, as many as were asked for. There are more.
    First(Report),
    /// Out of memory. The faults found so far are dropped.
    Memory,
}

impl FirstError {
    /// The same error of a call that asks for every fault: a report of either kind, or out of memory.
    pub fn into_whole(self) -> ValidateError
        ensures { result ≡ whole_error self }
    {
        match self {
            FirstError::All(report) => ValidateError::Report(report),
            FirstError::First(report) => ValidateError::Report(report),
            FirstError::Memory => ValidateError::Memory,
        }
    }
}

/// Prints the report, after the first faults also the line `there are more`, or `out of memory`.
impl fmt::Display for FirstError {
    ghost output = { λ error. Some (first_error_text error) };

    fn fmt<W: fmt::Write>(&self, f: &mut fmt::Formatter<W>) -> fmt::Result {
        match self {
            FirstError::All(report) => write!(f, "{report}"),
            FirstError::First(report) => writeln!(f, "{report}there are more"),
            FirstError::Memory => f.write_str("out of memory"),
        }
    }
}

impl std::error::Error for FirstError {}
