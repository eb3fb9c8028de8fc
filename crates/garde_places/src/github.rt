//! A fault as an annotation of GitHub.
ghost use Rattle.std.specs.Prelude.{◌≡◌, Some};
ghost use Rattle.std.specs.Fmt.{WritesOnOk};
ghost use Rattle.garde_places.specs.Escape.{written_text};
ghost use Rattle.garde_places.specs.GitHub.{file_text, github_text, spot_text};
ghost use Rattle.garde_places.specs.declared.escape.Escape.TheVariants.{Data, Property};

use crate::escape::{Escape, write_text};
use crate::fault::Fault;
use crate::short::{Told, escaped};
use garde_tape::Place;
use std::alloc::Global;
use std::fmt;

/// A fault of the file of this name, which prints as a workflow command of GitHub, with no line feed
/// behind: `::error file=FILE,line=LINE,col=COLUMN::PATH: MESSAGE`.
///
/// The name of the file has the escapes of a property, as `%0A` for a line feed, and then those of
/// `Escaped` of `garde_problem`. Path and message are those of `Short`, with the escapes of a message:
/// `%25` for a percent sign. Printing allocates.
#[derive(Clone, Copy, Debug)]
pub struct GitHub<'a, 'r>(pub Global, pub &'a str, pub &'a Fault<'r>);

impl fmt::Display for GitHub<'_, '_> {
    ghost output = { λ github. Some (github_text github.1.now github.2.now) };

    fn fmt<W: fmt::Write>(&self, f: &mut fmt::Formatter<W>) -> fmt::Result {
        let GitHub(alloc, file, fault) = *self;
        let told = format!(in alloc; "{}", Told(alloc, fault))?;
        f.write_str("::error file=")?;
        write_file(alloc, file, f)?;
        write_spot(fault.place, f)?;
        write_text(Escape::Data, told.as_str(), f)
    }
}

/// The name of a file as a property.
#[derive(Clone, Copy)]
struct Named<'a>(&'a str);

impl fmt::Display for Named<'_> {
    ghost output = { λ named. Some (written_text Property named.0.now) };

    fn fmt<W: fmt::Write>(&self, f: &mut fmt::Formatter<W>) -> fmt::Result {
        write_text(Escape::Property, self.0, f)
    }
}

fn write_file<W: fmt::Write>(alloc: Global, file: &str, f: &mut fmt::Formatter<W>) -> fmt::Result
    ensures { WritesOnOk W.write_str_gives f.old result (file_text file.now) f.new }
{
    let name = format!(in alloc; "{}", Named(file))?;
    let shown = escaped(alloc, name.as_str())?;
    f.write_str(shown.as_str())
}

fn write_spot<W: fmt::Write>(place: Place, f: &mut fmt::Formatter<W>) -> fmt::Result
    ensures { WritesOnOk W.write_str_gives f.old result (spot_text place) f.new }
{
    let Place { line, column } = place;
    write!(f, ",line={line},col={column}::")
}
