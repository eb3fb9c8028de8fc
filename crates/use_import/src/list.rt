//! The rows of a list, read one after the other.

use crate::options::Options;
use crate::row::{COLUMNS, read_row};
use crate::spot::{Naming, Spot, tell_header};
use anyhow::{Result, anyhow};
use csv::StringRecord;
use garde::{I18n, Report, ValidateError};
use garde_csv::{Next, Records};
use garde_problem::Escaped;
use garde_rows::{Columns, Names, read_columns};
use garde_schema::FormI18n;
use std::alloc::Global;
use std::io::{Read, Write};

/// A list whose header row has been read, and what is kept from one row to the next.
#[derive(Drop)]
struct List<'a, R> {
    records: Records<R>,
    columns: Columns<'a>,
    cells: StringRecord,
}

impl<'a, R: Read + Drop> List<'a, R> {
    /// Prints at most so many faults of the row that was read, and returns how many it printed.
    fn check<W: Write, H: I18n + FormI18n>(
        &mut self,
        alloc: Global,
        spot: Spot<'_>,
        most: usize,
        h: &H,
        out: &mut W,
    ) -> Result<usize> {
        match read_row(alloc, spot.index, &self.columns, &self.cells, h) {
            Ok(_) => Ok(0),
            Err(ValidateError::Report(report)) => spot.tell_report(alloc, &report, most, out),
            Err(error) => Err(error.into()),
        }
    }

    /// Where the row stands that was read last, and before which there are so many.
    fn spot<'w>(&self, options: &Options<'w>, count: usize) -> Result<Spot<'w>> {
        match options.first_row.unwrap_or(0).checked_add(count) {
            Some(index) => Ok(Spot {
                naming: options.naming(),
                index,
                line: self.records.line(),
            }),
            None => Err(anyhow!("a row has no number")),
        }
    }
}

/// Prints the faults of one row after the other, so many at most. The answer is whether there was
/// none.
fn import<R: Read + Drop, W: Write, H: I18n + FormI18n>(
    alloc: Global,
    list: &mut List<'_, R>,
    options: &Options<'_>,
    h: &H,
    out: &mut W,
) -> Result<bool> {
    let most = options.most.unwrap_or(usize::MAX);
    let mut left = most;
    for count in 0..usize::MAX {
        let next = list.records.read(&mut list.cells)?;
        if next == Next::End {
            break;
        }
        let spot = list.spot(options, count)?;
        let told = match next {
            Next::Faulty(fault) => {
                spot.tell(alloc, fault, out)?;
                1
            }
            _ => list.check(alloc, spot, left, h, out)?,
        };
        left = left.saturating_sub(told);
        if left == 0 {
            break;
        }
    }
    Ok(left == most)
}

/// The header row of a list, or that of every list where it has none.
fn header<R: Read + Drop>(
    alloc: Global,
    records: &mut Records<R>,
    has_header: bool,
) -> Result<StringRecord> {
    if !has_header {
        return Ok(StringRecord::from_fields(alloc, &COLUMNS)?);
    }
    let mut cells = StringRecord::new(alloc);
    match records.read(&mut cells)? {
        Next::Row | Next::End => Ok(cells),
        Next::Faulty(fault) => Err(anyhow!("the header: {fault}")),
    }
}

/// Prints every fault of a header row, which begins in this line, and fails.
fn reject_columns<W: Write>(
    alloc: Global,
    naming: Naming<'_>,
    line: u64,
    report: &Report,
    out: &mut W,
) -> Result<bool> {
    match naming {
        Naming::Placed(printed) => tell_header(alloc, printed, line, report, out)?,
        _ => write!(out, "{}", Escaped(alloc, report))?,
    }
    Err(anyhow!("these are not the columns of a list"))
}

/// Checks the rows of these records, whose header row has each of the columns and no other. It prints
/// every fault of another header row. The answer is whether nothing is wrong.
fn check_rows<R: Read + Drop, W: Write, H: I18n + FormI18n>(
    alloc: Global,
    records: Records<R>,
    header: &StringRecord,
    options: &Options<'_>,
    h: &H,
    out: &mut W,
) -> Result<bool> {
    match read_columns(alloc, header, Names(&COLUMNS), h) {
        Ok(columns) => {
            let mut list = List {
                records,
                columns,
                cells: StringRecord::new(alloc),
            };
            import(alloc, &mut list, options, h, out)
        }
        Err(ValidateError::Report(report)) => {
            reject_columns(alloc, options.naming(), records.line(), &report, out)
        }
        Err(error) => Err(error.into()),
    }
}

/// Checks the list of a source. The answer is whether nothing is wrong.
pub fn check<R: Read + Drop, W: Write, H: I18n + FormI18n>(
    alloc: Global,
    source: R,
    options: &Options<'_>,
    h: &H,
    out: &mut W,
) -> Result<bool> {
    let mut records = Records::new(alloc, source)?;
    let header = header(alloc, &mut records, options.has_header)?;
    check_rows(alloc, records, &header, options, h, out)
}
