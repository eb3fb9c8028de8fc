//! How a row is named in what is printed.
use anyhow::Result;
use garde::{Error, Path, Report};
use garde_csv::Fault;
use garde_places::{Place, Printed};
use garde_problem::coded_message;
use std::alloc::Global;
use std::io::Write;

/// How rows are named.
#[derive(Clone, Copy)]
pub enum Naming<'w> {
    /// By their numbers in the list.
    Index,
    /// By the lines in which they begin.
    Line,
    /// By both: each fault has the place of its row, and its path.
    Placed(Printed<'w>),
}

/// A row that was read: where it stands, and how it is named.
#[derive(Clone, Copy)]
pub struct Spot<'w> {
    pub naming: Naming<'w>,
    /// Its number in the list, from 0, without the header and empty lines.
    pub index: usize,
    /// The line in which it begins, from 1.
    pub line: u64,
}

/// Prints a fault that begins in a line.
fn tell_placed<W: Write>(
    alloc: Global,
    printed: Printed<'_>,
    line: u64,
    path: &Path,
    message: &str,
    out: &mut W,
) -> Result<()> {
    let place = Place {
        line: line as usize,
        column: 1,
    };
    let text = printed.line(alloc, place, path, message)?;
    out.write_all(text.as_bytes())?;
    Ok(())
}

/// Prints a fault of a row that is named by its line.
fn tell_line<W: Write>(
    alloc: Global,
    line: u64,
    path: &Path,
    error: &Error,
    out: &mut W,
) -> Result<()> {
    let whole = format!(in alloc; "{path}")?;
    match whole.as_str().split_once("].") {
        Some((_, inside)) => writeln!(out, "line {line}, {inside}: {error}")?,
        None => writeln!(out, "line {line}: {error}")?,
    }
    Ok(())
}

impl Spot<'_> {
    /// Prints a fault of the quotes of the row.
    pub fn tell<W: Write>(self, alloc: Global, fault: Fault, out: &mut W) -> Result<()> {
        match self.naming {
            Naming::Index => writeln!(out, "[{}]: {fault}", self.index)?,
            Naming::Line => writeln!(out, "line {}: {fault}", self.line)?,
            Naming::Placed(printed) => self.tell_quotes(alloc, printed, fault, out)?,
        }
        Ok(())
    }

    fn tell_quotes<W: Write>(
        self,
        alloc: Global,
        printed: Printed<'_>,
        fault: Fault,
        out: &mut W,
    ) -> Result<()> {
        let detail = format!(in alloc; "{fault}")?;
        let message = coded_message(alloc, "not_csv", detail.as_str(), &[])?;
        let path = Path::new(alloc, self.index)?;
        tell_placed(alloc, printed, self.line, &path, message.as_str(), out)
    }

    /// Prints at most so many faults of a report of the row, and returns how many it printed.
    pub fn tell_report<W: Write>(
        self,
        alloc: Global,
        report: &Report,
        most: usize,
        out: &mut W,
    ) -> Result<usize> {
        for (path, error) in report.iter().take(most) {
            match self.naming {
                Naming::Index => writeln!(out, "{path}: {error}")?,
                Naming::Line => tell_line(alloc, self.line, path, error, out)?,
                Naming::Placed(printed) => {
                    tell_placed(alloc, printed, self.line, path, error.message(), out)?;
                }
            }
        }
        Ok(report.len().min(most))
    }
}

/// Prints the faults of a header row, which begins in this line.
pub fn tell_header<W: Write>(
    alloc: Global,
    printed: Printed<'_>,
    line: u64,
    report: &Report,
    out: &mut W,
) -> Result<()> {
    for (path, error) in report.iter() {
        tell_placed(alloc, printed, line, path, error.message(), out)?;
    }
    Ok(())
}
