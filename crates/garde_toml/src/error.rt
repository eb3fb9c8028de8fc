//! Why a text is not turned into JSON.
ghost use Rattle.std.specs.Prelude.{◌≡◌, IfSome, option_map};
ghost use Rattle.garde_tape.specs.Place.{IsPlaceIn};
ghost use Rattle.garde_toml.specs.Answers.{IsStop, IsToldAs};

use garde_tape::{Stop, place_of_byte};
use std::alloc::AllocError;
use std::fmt;
use toml::de::Error;

/// Why a text is not turned into JSON.
#[derive(Debug, Drop)]
pub enum TomlError {
    /// The text is no TOML. Prints the line, the column and the reason.
    Parse(Error),
    /// The tables and arrays nest deeper than the 128 that a reader of JSON takes. A date, a time, `nan`
    /// and `inf` count as an array.
    TooDeep,
    /// Out of memory.
    Memory,
}

impl TomlError {
    /// Where in its text, which is given, the text stops being TOML, and why: at the first byte of what
    /// the toolchain's parser does not expect. Of the other errors there is none. A byte order mark is a
    /// character here.
    pub fn stop<'e>(&'e self, text: &str) -> Option<Stop<'e>>
        ensures place { IfSome result (λ stop. IsPlaceIn text.now stop.place) }
        ensures stop { IsStop text.now self.now (option_map (λ stop. stop.place) result) }
    {
        let TomlError::Parse(error) = self else {
            return None;
        };
        let span = error.span()?;
        Some(Stop {
            place: place_of_byte(text.as_bytes(), span.start),
            why: error.message(),
        })
    }
}

/// Out of memory is `TomlError::Memory`.
impl From<Error> for TomlError {
    ghost from_gives = { IsToldAs };

    fn from(error: Error) -> TomlError {
        if error.is_memory() {
            TomlError::Memory
        } else {
            TomlError::Parse(error)
        }
    }
}

impl From<AllocError> for TomlError {
    ghost use Rattle.garde_toml.specs.declared.error.TomlError.TheVariants.{Memory};

    ghost from_gives = { λ _ told. told ≡ Memory };

    fn from(_: AllocError) -> TomlError {
        TomlError::Memory
    }
}

/// Prints why the text is no TOML and where, in two lines, or why it is not turned into JSON.
impl fmt::Display for TomlError {
    fn fmt<W: fmt::Write>(&self, f: &mut fmt::Formatter<W>) -> fmt::Result {
        match self {
            TomlError::Parse(error) => write!(f, "{error}"),
            TomlError::TooDeep => f.write_str("tables and arrays nest deeper than 128"),
            TomlError::Memory => f.write_str("out of memory"),
        }
    }
}

impl std::error::Error for TomlError {}
