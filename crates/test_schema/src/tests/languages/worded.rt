//! What is wrong with a text in a file of texts, as handlers word it.

use super::german;
use crate::tests::is_text;
use garde::I18n;
use garde_catalog::{Catalog, TableTexts};
use garde_i18n::CodeI18n;
use garde_schema::{FormI18n, Object, Scratch, read_json};
use std::alloc::Global;

// A table, and what codes and a catalog say of it.
static WORDED: [(&str, &str, &str); 3] = [
    (
        "{\"not_url\":\"{min}\"}",
        "not_url: template_place_unknown\n",
        "not_url: has a name in braces that is no parameter of this text\n",
    ),
    (
        "{\"multiple_of_mismatch\":\"a\"}",
        "multiple_of_mismatch: template_place_missing\n",
        "multiple_of_mismatch: lacks a parameter in braces\n",
    ),
    (
        "{\"not_url\":\"}\"}",
        "not_url: template_brace_stray\n",
        "not_url: has a brace that does not close or does not open\n",
    ),
];

// Whether this is reported of a table.
fn is_reported<H: I18n + FormI18n>(alloc: Global, json: &str, h: &H, wanted: &str) -> bool {
    let mut scratch = Scratch::new(alloc);
    let form = Object(TableTexts::some());
    match read_json(alloc, json.as_bytes(), &mut scratch, &form, h) {
        Ok(_) => false,
        Err(error) => is_text(error.to_string(alloc), wanted),
    }
}

// Whether codes and a catalog say this of a table.
fn is_worded(alloc: Global, json: &str, code: &str, english: &str) -> bool {
    let Ok(german) = Catalog::new(alloc, german()) else {
        return false;
    };
    is_reported(alloc, json, &CodeI18n, code) && is_reported(alloc, json, &german, english)
}

#[test]
fn asks_the_handler_what_is_wrong_with_a_text(rt: HostRuntime) {
    for (json, code, english) in &WORDED {
        assert!(rt; is_worded(rt.alloc(), json, code, english));
    }
}
