//! Your own rules that bring their codes: translated by the line of a table, and by the line of a file.

use super::{english, german};
use crate::tests::{is_handed, is_text};
use garde::DefaultI18n;
use garde_catalog::{Catalog, CatalogError, Entry, Message, TableTexts};
use garde_i18n::{Code, Datum, Named, Texts, Value};
use garde_schema::{Closed, Object, Scratch, read_json};
use std::alloc::Global;

/// A name is taken: a code with a parameter.
const TAKEN: Datum<'static> = Datum::Named(Named {
    code: Code {
        name: "name_taken",
        param: Some(("name", Value::Text("anna"))),
    },
    english: "anna is taken",
});

/// A date is past: a code without a parameter.
const PAST: Datum<'static> = Datum::Named(Named {
    code: Code {
        name: "date_past",
        param: None,
    },
    english: "in the past",
});

static LINES: [Entry<'static>; 3] = [
    ("date_past", "vorbei"),
    ("name_taken", "{name} ist vergeben"),
    ("required_not_set", "unbenutzt"),
];

// What is said of a name and of a date by a catalog.
fn is_said(
    made: Result<Catalog<'_>, CatalogError>,
    alloc: Global,
    taken: &str,
    past: &str,
) -> bool {
    match made {
        Ok(h) => {
            is_handed(h.text_of(alloc, TAKEN), taken) && is_handed(h.text_of(alloc, PAST), past)
        }
        Err(_) => false,
    }
}

#[test]
fn words_rules_by_the_lines_of_a_table(rt: HostRuntime) {
    let alloc = rt.alloc();
    let made = Catalog::with_fallback(alloc, german(), &LINES);
    assert!(rt; is_said(made, alloc, "anna ist vergeben", "vorbei"));
    let made = Catalog::lent(alloc, &LINES, english());
    assert!(rt; is_said(made, alloc, "anna ist vergeben", "vorbei"));
}

#[test]
fn words_rules_without_a_line_in_english(rt: HostRuntime) {
    let alloc = rt.alloc();
    let made = Catalog::new(alloc, german());
    assert!(rt; is_said(made, alloc, "anna is taken", "in the past"));
}

static MESSAGES: [Message; 2] = [("name_taken", "name", ""), ("date_past", "", "")];

// Files with lines for two messages, each with what is said of a name and of a date, or with the report.
static FILES: [(&str, &str, &str); 5] = [
    (
        "{\"name_taken\":\"{name} ist vergeben\",\"date_past\":\"vorbei\"}",
        "anna ist vergeben",
        "vorbei",
    ),
    ("{\"date_past\":\"vorbei\"}", "anna is taken", "vorbei"),
    (
        "{\"name_taken\":\"vergeben\"}",
        "name_taken: lacks a parameter in braces\n",
        "",
    ),
    (
        "{\"date_past\":\"{name}\"}",
        "date_past: has a name in braces that is no parameter of this text\n",
        "",
    ),
    ("{\"date_gone\":\"\"}", "date_gone: not known here\n", ""),
];

// Whether a file is read and says this, or is reported so.
fn is_read(alloc: Global, json: &str, taken: &str, past: &str) -> bool {
    let mut scratch = Scratch::new(alloc);
    let form = Object(Closed(TableTexts::some().with(&MESSAGES)));
    match read_json(alloc, json.as_bytes(), &mut scratch, &form, &DefaultI18n) {
        Ok(table) => match table.lines(alloc) {
            Ok(lines) => {
                let made = Catalog::lent(alloc, lines.as_slice(), english());
                is_said(made, alloc, taken, past)
            }
            Err(_) => false,
        },
        Err(error) => is_text(error.to_string(alloc), taken),
    }
}

#[test]
fn words_rules_by_the_lines_of_a_file(rt: HostRuntime) {
    for (json, taken, past) in &FILES {
        assert!(rt; is_read(rt.alloc(), json, taken, past), "{json}");
    }
}
