//! Tables: the whole report of each, or the values of its rows.

use crate::tests::OrEnd;
use csv::StringRecord;
use garde::fields::{Is, Prefix};
use garde::{DefaultI18n, range};
use garde_form::{OrEmpty, Parsed};
use garde_rows::{Columns, Names, read_columns, read_row};
use garde_schema::{Any, Member, Object, Optional, Text, U8};
use std::alloc::{AllocError, Global};
use std::process::Abort;

// What is told of the row of this index.
pub(super) fn told_of_row<'a, 'c: 'a>(
    alloc: Global,
    index: usize,
    columns: &Columns<'c>,
    cells: &'a StringRecord,
) -> Result<String, AllocError> {
    let form = Object((
        Member("code", Text(Is(Prefix("P")))),
        Member("price", Parsed(U8, Is(range!(min = 1, max = 200)))),
        Optional("page", OrEmpty(Text(()))),
    ));
    match read_row(alloc, index, columns, cells, &form, &DefaultI18n) {
        Ok((code, price, page)) => {
            let (code, page) = (code.text(), page.flatten().map(|page| page.text()));
            format!(in alloc; "{code:?} {price} {page:?}\n")
        }
        Err(error) => error.to_string(alloc),
    }
}

// What is told of each row.
fn told_of_rows(rt: &impl Abort, alloc: Global, columns: &Columns<'_>, rows: &[&[&str]]) -> String {
    let mut all = String::new(alloc);
    for (index, row) in rows.iter().enumerate() {
        let cells = StringRecord::from_fields(alloc, row).or_end(rt);
        let told = told_of_row(alloc, index, columns, &cells).or_end(rt);
        all.push_str(&told).or_end(rt);
    }
    all
}

// What is told of a table.
fn told(rt: &impl Abort, alloc: Global, header: &[&str], rows: &[&[&str]]) -> String {
    let header = StringRecord::from_fields(alloc, header).or_end(rt);
    let known = (Names(&["code", "price"]), Optional("page", Any));
    match read_columns(alloc, &header, known, &DefaultI18n) {
        Ok(columns) => told_of_rows(rt, alloc, &columns, rows),
        Err(error) => error.to_string(alloc).or_end(rt),
    }
}

// The header of all known columns.
const KNOWN: &[&str] = &["code", "price", "page"];

// One row behind a header.
const ONE: &[&[&str]] = &[&["P1", "7", "9"]];

// Rows behind rows with a fault.
const SIX: &[&[&str]] = &[
    &["7", "P1"],
    &["7"],
    &["x", "P2"],
    &["7", "P3", ""],
    &["201", "Q4"],
    &["8", "P5"],
];

// A row behind the header of all known columns, and what is told of it.
static CELLS: [(&[&str], &str); 14] = [
    (&["P1", "5", "x"], "\"P1\" 5 Some(\"x\")\n"),
    (&["P1", "+200", ""], "\"P1\" 200 None\n"),
    (
        &["P\"\\,\n\u{1}é", "007", "{}"],
        "\"P\\\"\\\\,\\n\\u{1}é\" 7 Some(\"{}\")\n",
    ),
    (
        &["Q1", "201", ""],
        "[0].code: value does not begin with \"P\"\n[0].price: greater than 200\n",
    ),
    (
        &["", "", ""],
        "[0].code: value does not begin with \"P\"\n[0].price: not a whole number\n",
    ),
    (&["P1", "256", ""], "[0].price: greater than 200\n"),
    (&["P1", "-1", ""], "[0].price: lower than 1\n"),
    (
        &["P1", "5555555555555555555555555555555555555555", ""],
        "[0].price: greater than 200\n",
    ),
    (&["P1", " 5", ""], "[0].price: not a whole number\n"),
    (&["P1", "1_0", ""], "[0].price: not a whole number\n"),
    (&["P1", "5.0", ""], "[0].price: not a whole number\n"),
    (&["Q1", "x"], "[0]: not as many fields as in the header\n"),
    (
        &["P1", "5", "x", ""],
        "[0]: not as many fields as in the header\n",
    ),
    (&[], "[0]: not as many fields as in the header\n"),
];

// A header before one row, and what is told of it.
static HEADERS: [(&[&str], &str); 9] = [
    (&["code", "price", "page"], "\"P1\" 7 Some(\"9\")\n"),
    (
        &["page", "code", "price"],
        "[0].code: value does not begin with \"P\"\n",
    ),
    (
        &["code", "price"],
        "[0]: not as many fields as in the header\n",
    ),
    (&["code", "page"], "price: missing\n"),
    (&["code", "price", "code"], "code: repeated\n"),
    (&["page", "price", "page", "code"], "page: repeated\n"),
    (
        &["note", "code", "price", "note", ""],
        "note: not known here\nnote: not known here\n: not known here\n",
    ),
    (
        &["Code", "price", "price"],
        "code: missing\nprice: repeated\nCode: not known here\n",
    ),
    (&[], "code: missing\nprice: missing\n"),
];

// What is told of the rows behind rows with a fault.
const SIX_TOLD: &str =
    "\"P1\" 7 None\n[1]: not as many fields as in the header\n[2].price: not a whole number\n[3]: not as many fields as in the header\n[4].code: value does not begin with \"P\"\n[4].price: greater than 200\n\"P5\" 8 None\n";

// Ends at the first of these rows of which something else is told.
fn check_cells(rt: &impl Abort, alloc: Global) {
    for (row, expected) in &CELLS {
        assert!(rt;
            told(rt, alloc, KNOWN, &[*row]).as_str() == *expected,
            "{expected}"
        );
    }
}

// Ends at the first of these headers of which something else is told.
fn check_headers(rt: &impl Abort, alloc: Global) {
    for (header, expected) in &HEADERS {
        assert!(rt;
            told(rt, alloc, header, ONE).as_str() == *expected,
            "{expected}"
        );
    }
}

#[test]
fn tells_every_fault_of_a_table(rt: HostRuntime) {
    check_cells(&rt, rt.alloc());
    check_headers(&rt, rt.alloc());
    assert!(rt; told(&rt, rt.alloc(), &["price", "code"], SIX).as_str() == SIX_TOLD);
}
