//! Web forms in which the fields of some names are lists: the lists of each body, and the names of its
//! members.

use crate::tests::long_text::Long;
use crate::tests::{OrEnd, is_text};
use garde::DefaultI18n;
use garde_form::{FormField, form_fields, read_form};
use garde_schema::{Closed, List, Object, Optional, Text};
use std::alloc::{AllocError, Global};

// The names whose fields are lists.
const LISTED: &[&str] = &["ids", "tags", "tags"];

// The lists of the fields.
fn lists(alloc: Global, fields: &[FormField<'_>]) -> Result<String, AllocError> {
    let form = Object((
        Optional("ids", List(Text(()))),
        Optional("tags", List(Text(()))),
    ));
    match read_form(alloc, fields, LISTED, &form, &DefaultI18n) {
        Ok(lists) => format!(in alloc; "{lists:?}"),
        Err(error) => error.to_string(alloc),
    }
}

// A line for each member: none of them is known.
fn members(alloc: Global, fields: &[FormField<'_>]) -> Result<String, AllocError> {
    let form = Object(Closed(Optional("none", Text(()))));
    match read_form(alloc, fields, LISTED, &form, &DefaultI18n) {
        Ok(_) => Ok(String::new(alloc)),
        Err(error) => error.to_string(alloc),
    }
}

// Whether these are the lists of a body, and this is told of its members.
fn is_read(alloc: Global, body: &[u8], listed: &str, told: &str) -> bool {
    match form_fields(alloc, body) {
        Ok(fields) => {
            is_text(lists(alloc, fields.as_slice()), listed)
                && is_text(members(alloc, fields.as_slice()), told)
        }
        Err(_) => false,
    }
}

// A body, its lists, and what is told of its members.
static LISTS: [(&str, &str, &str); 11] = [
    ("", "(None, None)", ""),
    (
        "a=1&b&a=2",
        "(None, None)",
        "a: not known here\nb: not known here\na: not known here\n",
    ),
    (
        "tags=a",
        "(None, Some(Items([TextRef(\"a\")])))",
        "tags: not known here\n",
    ),
    (
        "tags=b&tags=a&tags=b",
        "(None, Some(Items([TextRef(\"b\"), TextRef(\"a\"), TextRef(\"b\")])))",
        "tags: not known here\n",
    ),
    (
        "x=1&tags=a&x=2&tags=b&y=3",
        "(None, Some(Items([TextRef(\"a\"), TextRef(\"b\")])))",
        "x: not known here\ntags: not known here\nx: not known here\ny: not known here\n",
    ),
    (
        "ids=1&tags=a&ids=2&tags=b&ids=3",
        "(Some(Items([TextRef(\"1\"), TextRef(\"2\"), TextRef(\"3\")])), Some(Items([TextRef(\"a\"), TextRef(\"b\")])))",
        "ids: not known here\ntags: not known here\n",
    ),
    (
        "tags=b&ids=1",
        "(Some(Items([TextRef(\"1\")])), Some(Items([TextRef(\"b\")])))",
        "tags: not known here\nids: not known here\n",
    ),
    (
        "tags=&tags&tags=+",
        "(None, Some(Items([TextRef(\"\"), TextRef(\"\"), TextRef(\" \")])))",
        "tags: not known here\n",
    ),
    (
        "t%61gs=a&tags=%62%",
        "(None, Some(Items([TextRef(\"a\"), TextRef(\"b%\")])))",
        "tags: not known here\n",
    ),
    (
        "Tags=a&tag=b&tags[]=c&=d&tagss=e",
        "(None, None)",
        "Tags: not known here\ntag: not known here\ntags[]: not known here\n: not known here\ntagss: not known here\n",
    ),
    (
        "tags=%FF&tags=%22",
        "(None, Some(Items([TextRef(\"\u{fffd}\"), TextRef(\"\\\"\")])))",
        "tags: not known here\n",
    ),
];

#[test]
fn reads_the_fields_of_a_listed_name_as_a_list(rt: HostRuntime) {
    for (body, listed, told) in &LISTS {
        assert!(rt;
            is_read(rt.alloc(), body.as_bytes(), listed, told),
            "{body}"
        );
    }
}

// A body of ten thousand fields, of which each tenth is a number under `ids`, and the list of these.
static MANY: (Long, Long) = (
    Long::Numbered(
        "ids=0",
        (1, 1_000),
        ("&a=1&a=1&a=1&a=1&a=1&a=1&a=1&a=1&a=1&ids=", ""),
        "&a=1&a=1&a=1&a=1&a=1&a=1&a=1&a=1&a=1&",
    ),
    Long::Numbered(
        "(Some(Items([TextRef(\"0",
        (1, 1_000),
        ("\"), TextRef(\"", ""),
        "\")])), None)",
    ),
);

#[test]
fn reads_a_list_of_a_thousand_among_ten_thousand_fields(rt: HostRuntime) {
    let body = MANY.0.text(rt.alloc()).or_end(&rt);
    let fields = form_fields(rt.alloc(), body.as_str().as_bytes()).or_end(&rt);
    let told = lists(rt.alloc(), fields.as_slice());
    assert!(rt; MANY.1.is(rt.alloc(), told));
}
