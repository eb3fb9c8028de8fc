//! Values that are kept as what they were.

use super::OrEnd;
use super::told::{Case, check, told};
use garde::DefaultI18n;
use garde_schema::{Kept, read_json};
use garde_tape::{Scratch, Tree};
use std::alloc::{AllocError, Global};

/// Any value.
pub fn any(alloc: Global, tree: &Tree<'_, '_>) -> Result<String, AllocError> {
    told(alloc, tree, &Kept)
}

const VALUES: &[(&str, &str)] = &[
    ("null", "KeptValue { value: Null }"),
    ("-0.50", "KeptValue { value: Number(\"-0.50\") }"),
    ("[]", "KeptValue { value: Array([]) }"),
    (
        "[1, {\"a\": \"\\u0062\", \"a\": [true]}]",
        "KeptValue { value: Array([Number(\"1\"), Object([(\"a\", String(\"b\")), (\"a\", Array([Bool(true)]))])]) }",
    ),
];

#[test]
fn keeps_any_value(rt: HostRuntime) {
    for (body, expected) in VALUES {
        check(&rt, rt.alloc(), &Case::Kept, body.as_bytes(), expected);
    }
}

#[test]
fn looks_into_a_kept_value(rt: HostRuntime) {
    let mut scratch = Scratch::new(rt.alloc());
    let body = b"{\"a\": [\"b\", 7]}";
    let kept = read_json(rt.alloc(), body, &mut scratch, &Kept, &DefaultI18n).or_end(&rt);
    match kept.value().get("a") {
        Some(list) => assert!(rt; list.at(0).is_some() && list.at(2).is_none()),
        None => assert!(rt; false),
    }
}
