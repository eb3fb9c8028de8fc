//! The rows of a table, printed.
use crate::file;
use crate::file::Work;
use anyhow::Result;
use csv::Writer;
use example_import::row::Row;
use example_table::database::Stock;
use example_table::reading::{Rows, Stored};
use sqlite::{Alter, Connection};
use std::alloc::Global;
use std::io;
use std::io::Write;

/// A number, or an empty text where there is none.
fn number(alloc: Global, number: Option<u64>) -> Result<String> {
    match number {
        Some(number) => Ok(format!(in alloc; "{number}")?),
        None => Ok(String::new(alloc)),
    }
}

/// A writer of records, on the heap since its buffer is large.
#[inline(never)]
fn records_on<W: Write + Drop>(alloc: Global, out: W) -> Result<Box<Writer<W>>> {
    Ok(Box::new(alloc, Writer::from_writer(out))?)
}

/// Writes a row as a record of five fields.
fn write_row<W: Write + Drop>(alloc: Global, row: &Row, out: &mut Writer<W>) -> Result<()> {
    let quantity = number(alloc, row.quantity)?;
    let price = number(alloc, row.price)?;
    let page = match &row.page {
        Some(page) => page.as_str(),
        None => "",
    };
    out.write_fields(&[
        row.code.as_bytes(),
        row.name.as_bytes(),
        quantity.as_bytes(),
        price.as_bytes(),
        page.as_bytes(),
    ])?;
    Ok(())
}

/// Writes a valid row as a record, or prints the faults of another on standard error. The answer is
/// whether it is valid.
fn write_stored<W: Write + Drop>(
    rt: &HostRuntime,
    stored: &Stored,
    out: &mut Writer<W>,
) -> Result<bool> {
    match stored {
        Stored::Valid(row) => write_row(rt.alloc(), row, out)?,
        Stored::Faulty(report) => eprint!(rt; "{report}")?,
    }
    Ok(matches!(stored, Stored::Valid(_)))
}

/// Writes rows as records, and prints the faults of a row that is not valid on standard error. The answer
/// is whether each row is valid.
fn write_rows<S: Alter + Drop, W: Write + Drop>(
    rt: &HostRuntime,
    rows: &mut Rows<'_, S>,
    out: &mut Writer<W>,
) -> Result<bool> {
    let mut valid = true;
    'rows: for _ in 0..u64::MAX {
        match rows.next()? {
            Some(stored) => valid &= write_stored(rt, &stored, out)?,
            None => break 'rows,
        }
    }
    Ok(valid)
}

/// Writes the rows of a table as a list in CSV. The answer is whether each row is valid.
fn write_list<S: Alter + Drop, W: Write + Drop>(
    rt: &HostRuntime,
    stock: &mut Stock<S>,
    out: &mut Writer<W>,
) -> Result<bool> {
    out.write_fields(&[b"code", b"name", b"quantity", b"price", b"page"])?;
    let valid = write_rows(rt, &mut stock.rows(rt.alloc()), out)?;
    out.flush()?;
    Ok(valid)
}

/// Prints the rows of a table as a list in CSV. The answer is whether each row is valid.
fn print<S: Alter + Drop>(rt: &HostRuntime, stock: &mut Stock<S>) -> Result<bool> {
    let mut out = records_on(rt.alloc(), io::writer(rt))?;
    write_list(rt, stock, &mut out)
}

/// Prints the rows of a table.
#[derive(Drop)]
struct Listing;

impl Work for Listing {
    /// Whether each row is valid.
    type Done = Result<bool>;

    fn run<S: Alter + Drop>(
        &mut self,
        rt: &HostRuntime,
        database: Result<Connection<S>, sqlite::Error>,
    ) -> Result<(Stock<S>, Result<bool>)> {
        let mut stock = file::open(database)?;
        let printed = print(rt, &mut stock);
        Ok((stock, printed))
    }
}

/// Prints the rows of the table of a file as a list in CSV, and the faults of a row that is not valid
/// on standard error. The answer is whether each row is valid.
pub fn list(rt: &HostRuntime, path: &str) -> Result<bool> {
    let (stock, printed) = file::with(rt, path, &mut Listing)?;
    let closed = file::close(stock);
    let valid = printed?;
    closed?;
    Ok(valid)
}
