//! How a run ends.
ghost use Rattle.std.specs.Prelude.{◌≡◌, Some};
ghost use Rattle.garde_check.specs.declared.outcome.RunError.TheVariants.{Memory};
ghost use Rattle.garde_check.specs.Words.{run_error_text};

use std::alloc::AllocError;
use std::fmt;

/// What a run found.
#[derive(Clone, Copy)]
pub enum Outcome {
    /// No fault.
    Valid,
    /// At least one fault.
    Faults,
}

/// Why a run failed.
#[derive(Clone, Copy, Debug)]
pub enum RunError {
    /// The input is not UTF-8. Nothing was written.
    NotUtf8,
    /// The input is read as a request, and is none. Nothing was written.
    BadBody,
    /// The reader failed. Nothing was written.
    Read,
    /// The writer failed. What was written is a beginning of the output.
    Write,
    /// Memory ran out. Nothing was written.
    Memory,
}

impl From<AllocError> for RunError {
    ghost from_gives = { λ _ error. error ≡ Memory };

    fn from(_error: AllocError) -> RunError {
        RunError::Memory
    }
}

/// Why the run failed, in words.
impl fmt::Display for RunError {
    ghost output = { λ error. Some (run_error_text error) };

    fn fmt<W: fmt::Write>(&self, f: &mut fmt::Formatter<W>) -> fmt::Result {
        f.write_str(match self {
            RunError::NotUtf8 => "the input is not UTF-8",
            RunError::BadBody => "the body is not a request",
            RunError::Read => "the input could not be read",
            RunError::Write => "the output could not be written",
            RunError::Memory => "out of memory",
        })
    }
}

impl std::error::Error for RunError {}
