//! Tables that are written in files: read back, and with the faults that are reported.

use super::english;
use crate::tests::long_text::Long;
use crate::tests::{OrEnd, is_text};
use garde::DefaultI18n;
use garde_catalog::{Catalog, Entry, FURTHER_MESSAGES, Table, TableTexts, languages};
use garde_schema::{Closed, Object, ReadError, Scratch, read_json};
use std::alloc::{AllocError, Global};

// Appends a member of this name and this text, with a comma behind it.
fn push_member(json: &mut String, name: &str, text: &str) -> Result<(), AllocError> {
    write!(json, "\"{name}\":\"")?;
    for c in text.chars() {
        if c == '"' {
            json.push('\\')?;
        }
        json.push(c)?;
    }
    json.push_str("\",")
}

// A table in JSON. In the place of the line of this code stands another one, with a comma behind it.
fn written(
    alloc: Global,
    table: &[Entry<'_>],
    code: Option<&str>,
    instead: &str,
) -> Result<String, AllocError> {
    let mut json = String::from_str(alloc, "{")?;
    for (name, text) in table {
        if code == Some(*name) {
            json.push_str(instead)?;
        } else {
            push_member(&mut json, name, text)?;
        }
    }
    let _ = json.pop();
    json.push('}')?;
    Ok(json)
}

// All texts of the shipped tables.
fn every() -> TableTexts {
    TableTexts::all().with(&FURTHER_MESSAGES)
}

// Reads a table, with all codes or with some.
fn read(alloc: Global, json: &[u8], texts: TableTexts) -> Result<Table, ReadError> {
    let mut scratch = Scratch::new(alloc);
    let form = Object(Closed(texts));
    read_json(alloc, json, &mut scratch, &form, &DefaultI18n)
}

// Whether a catalog of these lines has the texts of this table.
fn is_spoken(alloc: Global, lines: &[Entry<'_>], table: &[Entry<'_>]) -> bool {
    let Ok(catalog) = Catalog::lent(alloc, lines, english()) else {
        return false;
    };
    for (code, text) in table {
        if catalog.word(code) != *text {
            return false;
        }
    }
    true
}

// Whether a text in JSON is read, and its catalog has the texts of this table.
fn is_read_as(alloc: Global, json: &str, texts: TableTexts, table: &[Entry<'_>]) -> bool {
    match read(alloc, json.as_bytes(), texts) {
        Ok(read) => match read.lines(alloc) {
            Ok(lines) => is_spoken(alloc, lines.as_slice(), table),
            Err(_) => false,
        },
        Err(_) => false,
    }
}

#[test]
fn reads_back_every_language(rt: HostRuntime) {
    let alloc = rt.alloc();
    for language in languages() {
        let json = written(alloc, language.table, None, "").or_end(&rt);
        assert!(rt; is_read_as(alloc, json.as_str(), every(), language.table));
    }
}

#[test]
fn takes_missing_codes_from_the_fallback(rt: HostRuntime) {
    assert!(rt; is_read_as(rt.alloc(), "{}", TableTexts::some(), english()));
}

// The report of a text in JSON, or why there is none.
fn report_of(alloc: Global, json: &str, texts: TableTexts) -> Result<String, AllocError> {
    match read(alloc, json.as_bytes(), texts) {
        Ok(_) => String::from_str(alloc, "a table"),
        Err(error) => error.to_string(alloc),
    }
}

// The report of a table in English with another line in the place of that of a code.
fn report_with(alloc: Global, code: &str, instead: &Long) -> Result<String, AllocError> {
    let instead = instead.text(alloc)?;
    let json = written(alloc, english(), Some(code), instead.as_str())?;
    report_of(alloc, json.as_str(), every())
}

// A code, what stands in the place of its line, and what is reported.
static FAULTS: [(&str, Long, &str); 23] = [
    ("not_url", Long::Text(""), "not_url: missing\n"),
    (
        "not_url",
        Long::Text("\"not_url\":7,"),
        "not_url: not a text\n",
    ),
    (
        "not_url",
        Long::Text("\"not_url\":null,"),
        "not_url: not a text\n",
    ),
    ("not_url", Long::Text("\"not_url\":\"\","), "a table"),
    (
        "not_url",
        Long::Text("\"not_url\":\"\\u202e\\u0007\","),
        "a table",
    ),
    (
        "not_url",
        Long::Text("\"not_url\":\"a\",\"not_url\":\"a\","),
        "not_url: repeated\n",
    ),
    (
        "not_url",
        Long::Text("\"NotUrl\":\"a\","),
        "not_url: missing\nNotUrl: not known here\n",
    ),
    (
        "not_url",
        Long::Text("\"\\u202e\":1,\"not_url\":\"a\",\"\":2,"),
        "\u{202e}: not known here\n: not known here\n",
    ),
    (
        "not_url",
        Long::Text("\"not_url\":\"{}\","),
        "not_url: has a name in braces that is no parameter of this text\n",
    ),
    (
        "not_url",
        Long::Text("\"not_url\":\"{min}\","),
        "not_url: has a name in braces that is no parameter of this text\n",
    ),
    (
        "not_url",
        Long::Text("\"not_url\":\"{\","),
        "not_url: has a brace that does not close or does not open\n",
    ),
    (
        "not_url",
        Long::Text("\"not_url\":\"}\","),
        "not_url: has a brace that does not close or does not open\n",
    ),
    (
        "length_lower_than",
        Long::Text("\"length_lower_than\":\"a {min\","),
        "length_lower_than: has a brace that does not close or does not open\n",
    ),
    (
        "length_lower_than",
        Long::Text("\"length_lower_than\":\"a {{min}}\","),
        "length_lower_than: has a brace that does not close or does not open\n",
    ),
    (
        "length_lower_than",
        Long::Text("\"length_lower_than\":\"a {max}\","),
        "length_lower_than: has a name in braces that is no parameter of this text\n",
    ),
    (
        "length_lower_than",
        Long::Text("\"length_lower_than\":\"a { min}\","),
        "length_lower_than: has a name in braces that is no parameter of this text\n",
    ),
    (
        "length_lower_than",
        Long::Text("\"length_lower_than\":\"a\","),
        "length_lower_than: lacks a parameter in braces\n",
    ),
    (
        "length_lower_than",
        Long::Text("\"length_lower_than\":\"{min}{min}\","),
        "a table",
    ),
    (
        "out_of_range",
        Long::Text("\"out_of_range\":\"to {greatest}\","),
        "out_of_range: lacks a parameter in braces\n",
    ),
    (
        "out_of_range",
        Long::Text("\"out_of_range\":\"{greatest}, {least}\","),
        "a table",
    ),
    // Texts of a megabyte and more.
    (
        "length_lower_than",
        Long::Repeated(
            "\"length_lower_than\":\"",
            (65536, "0123456789abcdef"),
            "{min}\",",
            (0, ""),
            "",
        ),
        "a table",
    ),
    (
        "length_lower_than",
        Long::Repeated(
            "\"length_lower_than\":\"",
            (65536, "0123456789abcdef"),
            "\",",
            (0, ""),
            "",
        ),
        "length_lower_than: lacks a parameter in braces\n",
    ),
    (
        "length_lower_than",
        Long::Repeated(
            "\"length_lower_than\":\"",
            (65536, "0123456789abcdef"),
            "{min}}\",",
            (0, ""),
            "",
        ),
        "length_lower_than: has a brace that does not close or does not open\n",
    ),
];

#[test]
fn reports_each_fault_of_a_table(rt: HostRuntime) {
    for (row, (code, instead, wanted)) in FAULTS.iter().enumerate() {
        let report = report_with(rt.alloc(), code, instead);
        assert!(rt; is_text(report, wanted), "row {row}");
    }
}

// What is read as a table that may lack codes, and what is reported.
static OTHERS: [(&str, &str); 4] = [
    ("[]", "not an object\n"),
    ("{\"not_url\":\"a\"}", "a table"),
    (
        "{\"x\":1,\"not_url\":\"{\",\"ascii_invalid\":2}",
        "ascii_invalid: not a text\nnot_url: has a brace that does not close or does not open\nx: not known here\n",
    ),
    (
        "{\"not_url\":\"a\",\"not_url\":\"a\"}",
        "not_url: repeated\n",
    ),
];

#[test]
fn reports_all_faults_in_the_order_of_the_messages(rt: HostRuntime) {
    for (json, wanted) in &OTHERS {
        let report = report_of(rt.alloc(), json, TableTexts::some());
        assert!(rt; is_text(report, wanted), "{json}");
    }
}

// An object with a thousand unknown names.
static UNKNOWN: Long = Long::Numbered("{\"0", (1, 1000), ("\":0,\"", ""), "\":0}");

// How many lines the report of an object with a thousand unknown names has.
fn lines_of_unknown(alloc: Global) -> Result<usize, AllocError> {
    let json = UNKNOWN.text(alloc)?;
    let report = report_of(alloc, json.as_str(), every())?;
    Ok(report.as_str().lines().count())
}

#[test]
fn reports_a_thousand_unknown_names(rt: HostRuntime) {
    let lines = lines_of_unknown(rt.alloc());
    assert!(rt; lines == Ok(english().len() + 1000));
}

// Bytes that are no JSON.
static NO_JSON: [&[u8]; 4] = [
    b"",
    b"not_url = \"a\"",
    b"{\"not_url\":\"\xff\"}",
    b"{\"not_url\":\"a\"",
];

#[test]
fn reads_no_table_of_what_is_no_json(rt: HostRuntime) {
    for bytes in &NO_JSON {
        let read = read(rt.alloc(), bytes, TableTexts::some());
        assert!(rt; matches!(read, Err(ReadError::Parse(_))));
    }
}
