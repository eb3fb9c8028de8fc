//! What is printed where no valid value was made.
ghost use Rattle.std.specs.Prelude.{Some};
ghost use Rattle.garde.specs.IntoValid.{into_valid_text};

use crate::unvalidated::IntoValidError;
use std::fmt;

/// Prints the report, or `out of memory`.
impl<T> fmt::Display for IntoValidError<T> {
    ghost output = { λ error. Some (into_valid_text error) };

    fn fmt<W: fmt::Write>(&self, f: &mut fmt::Formatter<W>) -> fmt::Result {
        match self {
            IntoValidError::Report(report) => write!(f, "{report}"),
            IntoValidError::Memory(_) => f.write_str("out of memory"),
        }
    }
}

impl<T: fmt::Debug + Drop> std::error::Error for IntoValidError<T> {}
