//! Where the faults of an import are written.
ghost use Rattle.std.specs.Prelude.{◌≡◌, ℕ, List, IfOk, OnOk, map};
ghost use Rattle.std.specs.Io.KnownBytes.{Appends};
ghost use Rattle.std.specs.List.{All};
ghost use Rattle.garde_places.specs.Fault.{fault_entry};
ghost use Rattle.use_store.specs.Told.{AtLine, TellsPlaced};

use example_import::item::Sink;
use garde::Report;
use garde_places::{Fault, Place, Printed};
use std::alloc::{AllocError, Global};
use std::cell::Cell;
use std::io;
use std::io::Write;

/// A writer that gets a line for each fault.
#[derive(Drop)]
pub struct Faults<'w, W> {
    pub out: W,
    pub alloc: Global,
    /// How faults with their places are printed, and none for without.
    pub printed: Option<Printed<'w>>,
    /// The line in which the row begins that was read last.
    pub line: &'w Cell<u64>,
}

/// The faults of a report, each at the beginning of this line.
fn faults_at<'r>(
    alloc: Global,
    line: usize,
    report: &'r Report,
) -> Result<Vec<Fault<'r>>, AllocError>
    ensures faults { IfOk result (λ faults. map fault_entry faults.items ≡ report.now) }
    ensures places { IfOk result (λ faults. All (AtLine line) faults.items) }
{
    let place = Place { line, column: 1 };
    let mut faults = Vec::new(alloc);
    for (path, error) in report.iter() {
        faults.push(Fault { place, path, error })?;
    }
    Ok(faults)
}

/// Prints the faults of a report, each at the beginning of this line.
fn tell_placed<W: Write>(
    alloc: Global,
    printed: Printed<'_>,
    line: usize,
    report: &Report,
    out: &mut W,
) -> io::Result<()>
    ensures { OnOk result ((text : List ℕ) × Appends (W.contents out.old) (W.contents out.new) text
        × TellsPlaced printed.entry report.now text) }
{
    let faults = faults_at(alloc, line, report)?;
    let text = printed.format.lines(alloc, printed.file, &faults)?;
    out.write_all(text.as_bytes())
}

impl<'w, W: Write> Sink for Faults<'w, W> {
    ghost use Rattle.std.specs.Prelude.{◌≡◌, ℕ, List};
    ghost use Rattle.std.specs.Io.KnownBytes.{Appends};
    ghost use Rattle.use_store.specs.Told.{Tells};

    type Error = io::Error;

    ghost tells = { λ old report new. (text : List ℕ)
        × Appends (W.contents old.out) (W.contents new.out) text
        × Tells old.printed report text × (new.printed ≡ old.printed) };

    fn tell(&mut self, report: &Report) -> io::Result<()> {
        let line = self.line.get() as usize;
        match self.printed {
            None => write!(self.out, "{report}"),
            Some(printed) => tell_placed(self.alloc, printed, line, report, &mut self.out),
        }
    }
}
