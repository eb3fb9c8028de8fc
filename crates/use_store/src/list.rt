//! A stock list in CSV, read a row at a time.
ghost use Rattle.std.specs.Prelude.{◌≡◌, length, IfOk, IsTrue};
ghost use Rattle.csv.specs.Records.{fields_of};
ghost use Rattle.use_store.specs.List.{columns, field, Spells, Writes, IsRecord, Opens};

use anyhow::{Result, anyhow};
use csv::StringRecord;
use example_import::item::{Flaw, Item, Source};
use example_import::row::Row;
use garde_csv::{ListError, Next, Records};
use std::alloc::{AllocError, Global};
use std::cell::Cell;
use std::io::Read;

/// The columns of a list, in their order.
const COLUMNS: [&str; 5] = ["code", "name", "quantity", "price", "page"];

/// A list whose header row was read.
#[derive(Drop)]
pub struct CsvList<'w, R> {
    pub records: Records<R>,
    pub alloc: Global,
    /// Where it keeps the line in which the record begins that was read last.
    pub line: &'w Cell<u64>,
}

/// The field of a record at a place, or an empty one where there is none.
fn field_at(fields: &StringRecord, place: usize) -> &str
    ensures { result.now ≡ field (fields_of fields.now) place }
{
    fields.get(place).unwrap_or("")
}

/// Whether a header row has the columns of a list.
fn has_columns(header: &StringRecord) -> bool
    ensures { IsTrue result → fields_of header.now ≡ columns }
{
    let [code, name, quantity, price, page] = COLUMNS;
    header.len() == COLUMNS.len()
        && field_at(header, 0) == code
        && field_at(header, 1) == name
        && field_at(header, 2) == quantity
        && field_at(header, 3) == price
        && field_at(header, 4) == page
}

/// The number that a text writes, or none.
fn amount(text: &str) -> Option<u64>
    ensures { Writes text.now result }
{
    match text.parse() {
        Ok(number) => Some(number),
        Err(_) => None,
    }
}

/// The row that a record spells.
fn row_of(alloc: Global, fields: &StringRecord) -> Result<Row, AllocError>
    ensures { IfOk result (Spells (fields_of fields.now)) }
{
    let page = match field_at(fields, 4) {
        "" => None,
        page => Some(String::from_str(alloc, page)?),
    };
    Ok(Row {
        code: String::from_str(alloc, field_at(fields, 0))?,
        name: String::from_str(alloc, field_at(fields, 1))?,
        quantity: amount(field_at(fields, 2)),
        price: amount(field_at(fields, 3)),
        page,
    })
}

/// The item that a record without a fault is.
fn item_of(alloc: Global, fields: &StringRecord) -> Result<Item, AllocError>
    ensures { IfOk result (IsRecord (fields_of fields.now)) }
{
    if fields.len() != COLUMNS.len() {
        return Ok(Item::Broken(Flaw::Lengths));
    }
    Ok(Item::Row(row_of(alloc, fields)?))
}

impl<'w, R: Read + Drop> CsvList<'w, R> {
    /// The list that is read from here, and keeps its line there. Its header row has to name the columns.
    pub fn new(alloc: Global, list: R, line: &'w Cell<u64>) -> Result<CsvList<'w, R>>
        ensures { IfOk result (λ it. Opens R.remaining list it.records) }
    {
        let mut records = Records::new(alloc, list)?;
        let mut header = StringRecord::new(alloc);
        match records.read(&mut header)? {
            Next::Row if has_columns(&header) => Ok(CsvList {
                records,
                alloc,
                line,
            }),
            Next::Faulty(fault) => Err(anyhow!("the header: {fault}")),
            _ => Err(anyhow!("the columns must be code, name, quantity, price, page")),
        }
    }
}

impl<'w, R: Read + Drop> Source for CsvList<'w, R> {
    ghost use Rattle.use_store.specs.List.{Gives};

    type Error = ListError;

    ghost gives = { λ old next new. Gives R.remaining old.records next new.records };

    fn next(&mut self) -> Result<Option<Item>, ListError> {
        let mut fields = StringRecord::new(self.alloc);
        let next = self.records.read(&mut fields)?;
        self.line.set(self.records.line());
        match next {
            Next::Row => Ok(Some(item_of(self.alloc, &fields)?)),
            Next::Faulty(fault) => Ok(Some(Item::Broken(Flaw::Record(fault)))),
            Next::End => Ok(None),
        }
    }
}
