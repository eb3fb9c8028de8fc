//! The error of validation.
ghost use Rattle.std.specs.Prelude.{Some};
ghost use Rattle.garde.specs.ValidateError.{validate_error_text};

use garde_report::Report;
use std::fmt;

/// Why a value is not valid, or that memory ran out.
#[derive(Debug, Drop)]
pub enum ValidateError {
    /// The faults, in the order of the walk.
    Report(Report),
    /// Out of memory. The faults found so far are dropped.
    Memory,
}

/// Prints the report, or `out of memory`.
impl fmt::Display for ValidateError {
    ghost output = { λ refusal. Some (validate_error_text refusal) };

    fn fmt<W: fmt::Write>(&self, f: &mut fmt::Formatter<W>) -> fmt::Result {
        match self {
            ValidateError::Report(report) => write!(f, "{report}"),
            ValidateError::Memory => f.write_str("out of memory"),
        }
    }
}

impl std::error::Error for ValidateError {}
