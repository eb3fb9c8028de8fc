//! Why a list cannot be read on.
ghost use Rattle.garde_csv.specs.Texts.{list_error_text};

use std::alloc::AllocError;
use std::{fmt, io};

/// Why a list cannot be read on. No record is read behind it.
#[derive(Debug, Drop)]
pub enum ListError {
    /// The source failed.
    Io(io::Error),
    /// Out of memory.
    Memory,
    /// An earlier call failed, so it is not known where the next record begins.
    Stopped,
}

impl From<io::Error> for ListError {
    ghost use Rattle.std.specs.Prelude.{◌≡◌};
    ghost use Rattle.garde_csv.specs.declared.list_error.ListError.TheVariants.{Io};

    ghost from_gives = { λ old error. error ≡ Io old };

    fn from(error: io::Error) -> ListError {
        ListError::Io(error)
    }
}

impl From<AllocError> for ListError {
    ghost use Rattle.std.specs.Prelude.{◌≡◌};
    ghost use Rattle.garde_csv.specs.declared.list_error.ListError.TheVariants.{Memory};

    ghost from_gives = { λ _ error. error ≡ Memory };

    fn from(_: AllocError) -> ListError {
        ListError::Memory
    }
}

/// Prints the error of the source, or what went wrong.
impl fmt::Display for ListError {
    ghost output = { λ error. list_error_text error };

    fn fmt<W: fmt::Write>(&self, f: &mut fmt::Formatter<W>) -> fmt::Result {
        match self {
            ListError::Io(error) => write!(f, "{error}"),
            ListError::Memory => f.write_str("out of memory"),
            ListError::Stopped => f.write_str("the list could not be read before"),
        }
    }
}

impl std::error::Error for ListError {}
