//! How the result of reading is reported.
ghost use Rattle.std.specs.Prelude.{◌≡◌, IfOk, string_bytes};
ghost use Rattle.garde_library.specs.Checked.{lines_of, told};

use crate::details::details_of;
use crate::lines::{of_all, of_first, of_no_json};
use garde_schema::FirstReadError;
use std::alloc::{AllocError, Global};

/// How it is reported what is wrong with bytes.
#[derive(Clone, Copy)]
pub(crate) enum Telling<'a> {
    /// By problem details (RFC 9457) under this title.
    Details(&'a str),
    /// By a line for each fault.
    Lines,
}

// The lines of the result of reading.
fn lines_of(alloc: Global, read: &Result<(), FirstReadError>) -> Result<String, AllocError>
    ensures { IfOk result (λ text. string_bytes text ≡ lines_of read.now) }
{
    match read {
        Ok(()) | Err(FirstReadError::Memory) => Ok(String::new(alloc)),
        Err(FirstReadError::All(report)) => of_all(alloc, report),
        Err(FirstReadError::First(report)) => of_first(alloc, report),
        Err(FirstReadError::Parse(error)) => of_no_json(alloc, error),
    }
}

// The text that tells the result of reading.
pub(crate) fn text_of(
    alloc: Global,
    telling: Telling<'_>,
    read: &Result<(), FirstReadError>,
) -> Result<String, AllocError>
    ensures { IfOk result (λ text. string_bytes text ≡ told telling.entry read.now) }
{
    match telling {
        Telling::Details(title) => details_of(alloc, title, read),
        Telling::Lines => lines_of(alloc, read),
    }
}
