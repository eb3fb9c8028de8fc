//! Texts, lists of texts and fields as trees, held against the trees of JSON texts.

use super::bodies::drawn;
use super::is_text;
use super::members::{found, got};
use garde_tape::{FieldValue, Scratch, Tree, parse};
use std::alloc::{AllocError, Global};

// What a tree is, and what is found in it under three names, each with the last value there.
fn seen(alloc: Global, tree: &Tree<'_, '_>) -> Result<String, AllocError> {
    let mut out = drawn(alloc, tree)?;
    for name in &NAMES {
        out.push_str(found(tree, name))?;
        out.push_str(got(tree, name))?;
    }
    Ok(out)
}

static NAMES: [&str; 3] = ["a", "b", ""];

// Whether this is seen of a JSON text.
fn is_seen(alloc: Global, text: &str, own: &str) -> bool {
    let mut scratch = Scratch::new(alloc);
    match parse(alloc, text, &mut scratch) {
        Ok(tape) => is_text(seen(alloc, &Tree::root(&tape)), own),
        Err(_) => false,
    }
}

// Whether the same is seen of a tree by itself, and of the text that spells it.
fn is_same(alloc: Global, tree: &Tree<'_, '_>, text: &str) -> bool {
    match seen(alloc, tree) {
        Ok(own) => is_seen(alloc, text, own.as_str()),
        Err(_) => false,
    }
}

#[test]
fn reads_texts_as_the_json_that_spells_them(rt: HostRuntime) {
    let alloc = rt.alloc();
    assert!(rt;
        is_same(alloc, &Tree::text(""), "\"\"")
            && is_same(alloc, &Tree::text("it"), "\"it\"")
            && is_same(alloc, &Tree::text("1"), "\"1\"")
            && is_same(alloc, &Tree::text("a\"\n\u{e9}"), "\"a\\\"\\n\\u00e9\"")
            && is_same(alloc, &Tree::texts(&[]), "[]")
            && is_same(alloc, &Tree::texts(&["it"]), "[\"it\"]")
            && is_same(alloc, &Tree::texts(&["", "a", "a"]), "[\"\",\"a\",\"a\"]")
    );
}

// Fields, and the text that spells them.
static FIELDS: [(&[(&str, FieldValue<'static, 'static>)], &str); 5] = [
    (&[], "{}"),
    (&[("a", FieldValue::Text("it"))], "{\"a\":\"it\"}"),
    (
        &[
            ("b", FieldValue::Text("")),
            ("a", FieldValue::Text("it")),
            ("", FieldValue::Texts(&["it", ""])),
        ],
        "{\"b\":\"\",\"a\":\"it\",\"\":[\"it\",\"\"]}",
    ),
    (
        &[
            ("a", FieldValue::Text("it")),
            ("ab", FieldValue::Text("it")),
            ("a", FieldValue::Text("")),
        ],
        "{\"a\":\"it\",\"ab\":\"it\",\"a\":\"\"}",
    ),
    (
        &[
            ("a", FieldValue::Text("")),
            ("a", FieldValue::Texts(&["it", ""])),
            ("a", FieldValue::Text("it")),
        ],
        "{\"a\":\"\",\"a\":[\"it\",\"\"],\"a\":\"it\"}",
    ),
];

#[test]
fn reads_fields_as_the_json_that_spells_them(rt: HostRuntime) {
    for (fields, text) in &FIELDS {
        assert!(rt; is_same(rt.alloc(), &Tree::fields(fields), text), "{text}");
    }
}
