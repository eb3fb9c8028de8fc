//! A fault of a report, and where it stands in the text.
ghost use Rattle.std.specs.Prelude.{◌≡◌, ◌||◌, codes};
ghost use Rattle.std.specs.Str.{bytes_eq};
ghost use Rattle.garde_places.specs.Fault.{speaks_of_name};

use garde_report::{Error, Path};
use garde_tape::Place;

/// A fault of a report, and where it stands in the text.
#[derive(Clone, Copy, Debug, Drop)]
pub struct Fault<'r> {
    /// Where it stands in the text.
    pub place: Place,
    /// Where it stands in the value.
    pub path: &'r Path,
    /// Its message.
    pub error: &'r Error,
}

/// Whether a fault of this code speaks of the name of a member, and not of its value.
pub(crate) fn speaks_of_name(code: &str) -> bool
    ensures { result ≡ speaks_of_name code.now }
{
    code == "member_unknown" || code == "member_repeated"
}
