//! Why no report and no path was read.
use std::alloc::AllocError;
use std::fmt;

/// Why nothing was read from a tree.
#[derive(Clone, Copy, Debug, PartialEq, Eq)]
pub enum JsonRefused {
    /// The tree is not the written form of a report, or not that of a path.
    Form,
    /// There is no memory for what the tree holds.
    Memory,
}

impl From<AllocError> for JsonRefused {
    ghost use Rattle.std.specs.Prelude.{◌≡◌};
    ghost use Rattle.garde_json.specs.declared.refused.JsonRefused.TheVariants.{Memory};

    ghost from_gives = { λ _ refused. refused ≡ Memory };

    fn from(_error: AllocError) -> JsonRefused {
        JsonRefused::Memory
    }
}

/// Why nothing was read, in words.
impl fmt::Display for JsonRefused {
    ghost use Rattle.std.specs.Prelude.{Some};
    ghost use Rattle.garde_json.specs.Refusals.{json_refused_text};

    ghost output = { λ refused. Some (json_refused_text refused) };

    fn fmt<W: fmt::Write>(&self, f: &mut fmt::Formatter<W>) -> fmt::Result {
        f.write_str(match self {
            JsonRefused::Form => "the tree is not a report or a path",
            JsonRefused::Memory => "out of memory",
        })
    }
}

impl std::error::Error for JsonRefused {}
