//! Members by their names.

use garde_tape::{Found, Scratch, Tree, parse};
use std::alloc::Global;

fn seen(value: &Tree<'_, '_>) -> &'static str {
    if value.as_str() == Some("it") {
        "it"
    } else {
        "another"
    }
}

pub(super) fn found(tree: &Tree<'_, '_>, name: &str) -> &'static str {
    match tree.find(name) {
        Found::Missing => "missing",
        Found::Once(value) => seen(&value),
        Found::Repeated => "repeated",
    }
}

pub(super) fn got(tree: &Tree<'_, '_>, name: &str) -> &'static str {
    match tree.get(name) {
        None => "missing",
        Some(value) => seen(&value),
    }
}

// What is found under a name, and the last value there.
fn looked_up(alloc: Global, text: &str, name: &str) -> Option<(&'static str, &'static str)> {
    let mut scratch = Scratch::new(alloc);
    let tape = parse(alloc, text, &mut scratch).ok()?;
    let tree = Tree::root(&tape);
    Some((found(&tree, name), got(&tree, name)))
}

const NAMES: &[(&str, &str, &str, &str)] = &[
    ("{}", "a", "missing", "missing"),
    ("{\"a\":\"it\"}", "a", "it", "it"),
    ("{\"b\":1,\"a\":\"it\",\"c\":{\"a\":2}}", "a", "it", "it"),
    ("{\"b\":1,\"ab\":2,\"\":3}", "a", "missing", "missing"),
    ("{\"a\":1,\"b\":2,\"a\":\"it\"}", "a", "repeated", "it"),
    (
        "{\"a\":1,\"\\u0061\":\"it\",\"a\":2}",
        "a",
        "repeated",
        "another",
    ),
    ("{\"\":\"it\",\"a\":1}", "", "it", "it"),
    ("[{\"a\":1}]", "a", "missing", "missing"),
    ("\"a\"", "a", "missing", "missing"),
    ("null", "", "missing", "missing"),
];

#[test]
fn finds_a_member_by_its_name(rt: HostRuntime) {
    for (text, name, found, got) in NAMES {
        assert!(rt;
            looked_up(rt.alloc(), text, name) == Some((*found, *got)),
            "{text}"
        );
    }
}
