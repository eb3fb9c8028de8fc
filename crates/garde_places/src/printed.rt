//! The faults of an input in lines, under its name.
ghost use Rattle.std.specs.Prelude.{◌≡◌, ◌≢◌, [], ◌∷◌, IfOk, IsOk, OnErr, OnOk, string_bytes};
ghost use Rattle.std.specs.List.Sorted.{IsPermutation, IsSortedByKey, IsStableByKey};
ghost use Rattle.garde_places.specs.Fault.{line_and_column, line_first};
ghost use Rattle.garde_places.specs.Format.{lines_text};
ghost use Rattle.garde_places.specs.Printed.{IsLineOf};
ghost use Rattle.garde_places.specs.declared.format.Format.TheVariants.{Json as ForPrograms};

use crate::fault::Fault;
use crate::format::Format;
use crate::order::sort_by_place;
use garde_report::{Error, Path};
use garde_tape::Place;
use std::alloc::{AllocError, Global};

/// How the faults of an input are printed: in which format, and under which name of a file.
#[derive(Clone, Copy, Debug, Drop)]
pub struct Printed<'w> {
    pub format: Format,
    /// The name of the file.
    pub file: &'w str,
}

impl Printed<'_> {
    /// Faults in lines, each with its line feed: for people they are sorted by their places, and as `json`,
    /// for programs, they keep their order. No fault needs no memory.
    pub fn lines(self, alloc: Global, faults: &mut Vec<Fault<'_>>) -> Result<String, AllocError>
        ensures text { IfOk result (λ text. string_bytes text ≡ lines_text self.entry.format self.entry.file.now faults.new.items) }
        ensures same { IsPermutation faults.old.items faults.new.items }
        ensures sorted { OnOk result (self.entry.format ≢ ForPrograms → IsSortedByKey line_and_column line_first faults.new.items) }
        ensures stable { IsStableByKey line_and_column line_first faults.old.items faults.new.items }
        ensures in_order { self.entry.format ≡ ForPrograms → faults.new.items ≡ faults.old.items }
        ensures empty { faults.old.items ≡ [] → IsOk result }
    {
        if !matches!(self.format, Format::Json) {
            sort_by_place(faults)?;
        }
        self.format.lines(alloc, self.file, faults)
    }

    /// The line of a fault that stands in no report, as of a text that is no JSON: of its place, its path
    /// and its message.
    pub fn line(
        self,
        alloc: Global,
        place: Place,
        path: &Path,
        message: &str,
    ) -> Result<String, AllocError>
        ensures { IfOk result (λ text. IsLineOf self.entry.format self.entry.file.now place path.now message.now (string_bytes text)) }
    {
        let error = Error::new(alloc, message)?;
        let fault = Fault {
            place,
            path,
            error: &error,
        };
        self.format.lines(alloc, self.file, &[fault])
    }
}
