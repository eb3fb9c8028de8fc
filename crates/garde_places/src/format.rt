//! The formats in which faults with places are printed.
ghost use Rattle.std.specs.Prelude.{◌≡◌, [], IfOk, IsOk, Some, string_bytes};
ghost use Rattle.std.specs.Str.{bytes_eq};
ghost use Rattle.garde_places.specs.Format.{format_of, line_text, lines_text};

use crate::fault::Fault;
use crate::github::GitHub;
use crate::json_line::JsonLine;
use crate::short::Short;
use std::alloc::{AllocError, Global};
use std::fmt;

/// How a fault with its place is printed, each as one line.
#[derive(Clone, Copy, Debug, PartialEq, Eq)]
pub enum Format {
    /// `FILE:LINE:COLUMN: error: PATH: MESSAGE`, as `Short` prints it, for people and editors.
    Short,
    /// An object, as `JsonLine` prints it, for programs.
    Json,
    /// A workflow command of GitHub, as `GitHub` prints it.
    GitHub,
}

impl Format {
    /// The format of this name: `short`, `json` or `github`.
    pub fn of(name: &str) -> Option<Format>
        ensures { result ≡ format_of name.now }
    {
        match name {
            "short" => Some(Format::Short),
            "json" => Some(Format::Json),
            "github" => Some(Format::GitHub),
            _ => None,
        }
    }

    /// The faults of the file of this name in this format, each as a line with its line feed, in their
    /// order. No fault needs no memory.
    pub fn lines(
        self,
        alloc: Global,
        file: &str,
        faults: &[Fault<'_>],
    ) -> Result<String, AllocError>
        ensures text { IfOk result (λ text. string_bytes text ≡ lines_text self file.now faults.now) }
        ensures empty { faults.now ≡ [] → IsOk result }
    {
        let mut text = String::new(alloc);
        for fault in faults {
            writeln!(text, "{}", Line(alloc, self, file, fault))?;
        }
        Ok(text)
    }
}

/// A fault of the file of this name in this format.
#[derive(Clone, Copy)]
pub(crate) struct Line<'a, 'r>(Global, Format, &'a str, &'a Fault<'r>);

impl fmt::Display for Line<'_, '_> {
    ghost output = { λ line. Some (line_text line.1 line.2.now line.3.now) };

    fn fmt<W: fmt::Write>(&self, f: &mut fmt::Formatter<W>) -> fmt::Result {
        let Line(alloc, format, file, fault) = *self;
        match format {
            Format::Short => Short(alloc, file, fault).fmt(f),
            Format::Json => JsonLine(alloc, file, fault).fmt(f),
            Format::GitHub => GitHub(alloc, file, fault).fmt(f),
        }
    }
}
