//! A list that is stored in the table of a file.

use crate::faults::Faults;
use crate::file;
use crate::file::Work;
use crate::list::CsvList;
use crate::options::Options;
use anyhow::{Error, Result, anyhow};
use example_import::run::{Batch, Cause, Progress, Stopped, import};
use example_table::database::Stock;
use example_table::opening::OpenError;
use garde::I18n;
use garde_catalog::{Catalog, ENGLISH, languages};
use garde_csv::ListError;
use garde_problem::WithCodes;
use sqlite::{Alter, Connection, FileStore};
use std::cell::Cell;
use std::fmt::Display;
use std::io;
use std::io::{BufWriter, Read, Write};

/// What the file keeps of a list of which no row was read.
const NOTHING: Progress = Progress {
    items: 0,
    stored: 0,
};

/// Why an import ended before its list did, and what the file keeps of it.
fn ended_by<E: Display>(error: &E, kept: Progress) -> Error {
    let Progress { items, stored } = kept;
    anyhow!("{error}; stored {stored} of the first {items} rows")
}

/// Why an import was stopped, and what the file keeps of it.
fn reason(stopped: &Stopped<ListError, sqlite::Error, io::Error>) -> Error {
    match &stopped.cause {
        Cause::Memory => ended_by(&"out of memory", stopped.kept),
        Cause::List(error) => ended_by(error, stopped.kept),
        Cause::Store(error) => ended_by(error, stopped.kept),
        Cause::Report(error) => ended_by(error, stopped.kept),
        Cause::TooLong => ended_by(&"too many rows", stopped.kept),
    }
}

/// Prints how many rows were stored, and how many were not: behind the faults, or on standard error
/// where these have places, so that programs read nothing else.
fn summarize<W: Write>(
    rt: &HostRuntime,
    progress: Progress,
    left: usize,
    out: &mut Faults<'_, W>,
) -> io::Result<()> {
    let stored = progress.stored;
    if out.printed.is_none() {
        writeln!(out.out, "stored {stored}, not stored {left}")?;
        return out.out.flush();
    }
    out.out.flush()?;
    eprintln!(rt; "stored {stored}, not stored {left}")
}

/// Closes the file, and prints how many rows were stored. The answer is whether all were. The rows
/// are kept, also where that fails.
fn end<W: Write>(
    rt: &HostRuntime,
    stock: Stock<FileStore<sqlite::File>>,
    progress: Progress,
    out: &mut Faults<'_, W>,
) -> Result<bool> {
    let left = progress.items.saturating_sub(progress.stored);
    if let Err(error) = file::close(stock) {
        let _ = out.out.flush();
        return Err(ended_by(&error, progress));
    }
    match summarize(rt, progress, left, out) {
        Ok(()) => Ok(left == 0),
        Err(error) => Err(ended_by(&error, progress)),
    }
}

/// Why there is no table of a file, and what the file keeps where its disk is full.
fn not_opened(error: OpenError) -> Error {
    if file::is_full(&error) {
        ended_by(&error, NOTHING)
    } else {
        error.into()
    }
}

/// An import of a list, with the texts of a handler.
#[derive(Drop)]
struct Import<'w, R, W, H> {
    list: CsvList<'w, R>,
    out: Faults<'w, W>,
    batch: Batch,
    h: &'w H,
}

impl<'w, R: Read + Drop, W: Write + Drop, H: I18n> Work for Import<'w, R, W, H> {
    type Done = Progress;

    fn run<S: Alter + Drop>(
        &mut self,
        rt: &HostRuntime,
        database: Result<Connection<S>, sqlite::Error>,
    ) -> Result<(Stock<S>, Progress)> {
        let mut stock = match file::open(database) {
            Ok(stock) => stock,
            Err(error) => return Err(not_opened(error)),
        };
        match import(
            rt.alloc(),
            &mut stock,
            &mut self.list,
            &mut self.out,
            self.batch,
            self.h,
        ) {
            Ok(progress) => Ok((stock, progress)),
            Err(stopped) => {
                let _ = self.out.out.flush();
                Err(reason(&stopped))
            }
        }
    }
}

/// Imports a list into the table of a file, and writes its faults. The answer is whether all rows were
/// stored.
fn store_list<R: Read + Drop, W: Write + Drop, H: I18n>(
    rt: &HostRuntime,
    list: CsvList<'_, R>,
    out: Faults<'_, W>,
    options: &Options<'_>,
    h: &H,
) -> Result<bool> {
    let batch = options.batch();
    let mut work = Import {
        list,
        out,
        batch,
        h,
    };
    match file::with(rt, options.path, &mut work) {
        Ok((stock, progress)) => end(rt, stock, progress, &mut work.out),
        Err(error) => Err(error),
    }
}

/// Imports the list of a source into the table of a file, with the texts of a handler. The answer is
/// whether all rows were stored.
fn store_source<R: Read + Drop, H: I18n>(
    rt: &HostRuntime,
    source: R,
    options: &Options<'_>,
    h: &H,
) -> Result<bool> {
    let line = Cell::new(0);
    let out = Faults {
        out: BufWriter::new(rt.alloc(), io::writer(rt))?,
        alloc: rt.alloc(),
        printed: options.asked.printed(),
        line: &line,
    };
    let list = CsvList::new(rt.alloc(), source, &line)?;
    store_list(rt, list, out, options, h)
}

/// Imports the list of a source into the table of a file, and prints faults in the language that is
/// asked for. A fault that has a place has a code, too. The answer is whether all rows were stored.
pub fn store<R: Read + Drop>(rt: &HostRuntime, source: R, options: &Options<'_>) -> Result<bool> {
    let catalog = Catalog::spoken(rt.alloc(), options.spoken.tag, &languages(), &ENGLISH)?;
    match options.asked.printed() {
        Some(_) => store_source(rt, source, options, &WithCodes(&catalog)),
        None => store_source(rt, source, options, &catalog),
    }
}
