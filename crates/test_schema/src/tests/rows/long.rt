//! Headers of many columns, and rows of many cells.

use super::tables::told_of_row;
use crate::tests::long_text::Long;
use crate::tests::{OrEnd, is_text};
use csv::StringRecord;
use garde::{DefaultI18n, ValidateError};
use garde_rows::{Columns, Names, read_columns};
use std::alloc::Global;
use std::process::Abort;

const MANY: usize = 10_000;

// These texts, and then many of another one.
fn many(rt: &impl Abort, alloc: Global, first: &[&str], other: &str) -> StringRecord {
    let mut cells = StringRecord::from_fields(alloc, first).or_end(rt);
    for _ in first.len()..MANY {
        cells.push_field(other).or_end(rt);
    }
    cells
}

// A line for each column but the two that are known.
static NOTES: Long = Long::Repeated("", (9_998, "note: not known here\n"), "", (0, ""), "");

// Whether each column is told of a header that begins with two known columns.
fn is_each_told(rt: &impl Abort, alloc: Global) -> bool {
    let header = many(rt, alloc, &["price", "code"], "note");
    match columns(alloc, &header) {
        Ok(_) => false,
        Err(error) => NOTES.is(alloc, error.to_string(alloc)),
    }
}

#[test]
fn tells_each_of_ten_thousand_columns(rt: HostRuntime) {
    assert!(rt; is_each_told(&rt, rt.alloc()));
}

// A row with a cell of 1,500,000 bytes.
fn long_row(rt: &impl Abort, alloc: Global) -> StringRecord {
    let text = "P\"\n".repeat(alloc, 500_000).or_end(rt);
    StringRecord::from_fields(alloc, &["4", text.as_str()]).or_end(rt)
}

// What is told of it: a quote, five bytes for each three, a quote, and the other values.
static LONG: Long = Long::Repeated("\"", (500_000, "P\\\"\\n"), "\" 4 None\n", (0, ""), "");

// The columns of a header, or its report.
fn columns(alloc: Global, header: &StringRecord) -> Result<Columns<'_>, ValidateError> {
    let known = Names(&["code", "price"]);
    read_columns(alloc, header, known, &DefaultI18n)
}

// Whether a row of many cells is not as long as its header.
fn is_too_wide(rt: &impl Abort, alloc: Global, columns: &Columns<'_>) -> bool {
    let cells = many(rt, alloc, &["5", "P1"], "9");
    let told = told_of_row(alloc, 7, columns, &cells);
    is_text(told, "[7]: not as many fields as in the header\n")
}

// Whether a row with a cell of 1,500,000 bytes is read.
fn is_long_read(rt: &impl Abort, alloc: Global, columns: &Columns<'_>) -> bool {
    LONG.is(alloc, told_of_row(alloc, 7, columns, &long_row(rt, alloc)))
}

#[test]
fn reads_rows_of_many_cells(rt: HostRuntime) {
    let header = StringRecord::from_fields(rt.alloc(), &["price", "code"]).or_end(&rt);
    let columns = columns(rt.alloc(), &header).or_end(&rt);
    assert!(rt; is_too_wide(&rt, rt.alloc(), &columns));
    assert!(rt; is_long_read(&rt, rt.alloc(), &columns));
}
