//! A fault in one line, as compilers print it and editors read it.
ghost use Rattle.std.specs.Prelude.{◌≡◌, Some, IfOk, string_bytes};
ghost use Rattle.std.specs.Fmt.{WritesOnOk};
ghost use Rattle.garde_problem.specs.Escaped.{escaped_text};
ghost use Rattle.garde_places.specs.Short.{file_text, short_text, spot_text, told_text};

use crate::escape::{Escape, write_text};
use crate::fault::Fault;
use garde_problem::{Coded, Escaped};
use garde_report::Path;
use garde_tape::Place;
use std::alloc::{AllocError, Global};
use std::fmt;

/// A fault of the file of this name, which prints as `FILE:LINE:COLUMN: error: PATH: MESSAGE`, with no
/// line feed behind. A fault of the whole value has no path.
///
/// Path and message are escaped as `Escaped` of `garde_problem` escapes them, and so is the name of the
/// file, with a colon as `\u{3a}`. So each fault is one line, and a name can forge no place. Printing
/// allocates.
#[derive(Clone, Copy, Debug)]
pub struct Short<'a, 'r>(pub Global, pub &'a str, pub &'a Fault<'r>);

impl fmt::Display for Short<'_, '_> {
    ghost output = { λ short. Some (short_text short.1.now short.2.now) };

    fn fmt<W: fmt::Write>(&self, f: &mut fmt::Formatter<W>) -> fmt::Result {
        let Short(alloc, file, fault) = *self;
        write_file(alloc, file, f)?;
        f.write_str(":")?;
        write_spot(fault.place, f)?;
        Told(alloc, fault).fmt(f)
    }
}

fn write_spot<W: fmt::Write>(place: Place, f: &mut fmt::Formatter<W>) -> fmt::Result
    ensures { WritesOnOk W.write_str_gives f.old result (spot_text place) f.new }
{
    let Place { line, column } = place;
    write!(f, "{line}:{column}: error: ")
}

/// A text with what is not shown escaped. It is escaped as a path of one key is.
pub(crate) fn escaped(alloc: Global, text: &str) -> Result<String, AllocError>
    ensures { IfOk result (λ s. string_bytes s ≡ escaped_text text.now) }
{
    let path = Path::new(alloc, text)?;
    let shown = format!(in alloc; "{}", Escaped(alloc, &path))?;
    Ok(shown)
}

// Writes the name of a file.
fn write_file<W: fmt::Write>(alloc: Global, file: &str, f: &mut fmt::Formatter<W>) -> fmt::Result
    ensures { WritesOnOk W.write_str_gives f.old result (file_text file.now) f.new }
{
    let shown = escaped(alloc, file)?;
    write_text(Escape::File, shown.as_str(), f)
}

/// A fault without its place: its path, if it has one, and its sentence.
#[derive(Clone, Copy)]
pub(crate) struct Told<'a, 'r>(pub(crate) Global, pub(crate) &'a Fault<'r>);

impl fmt::Display for Told<'_, '_> {
    ghost output = { λ told. Some (told_text told.1.now) };

    fn fmt<W: fmt::Write>(&self, f: &mut fmt::Formatter<W>) -> fmt::Result {
        let Told(alloc, fault) = *self;
        let message = escaped(alloc, Coded::of(fault.error.message()).detail)?;
        if fault.path.is_empty() {
            f.write_str(message.as_str())
        } else {
            write!(f, "{}: {message}", Escaped(alloc, fault.path))
        }
    }
}
