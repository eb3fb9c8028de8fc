//! A document, of which it depends on its switches what is asked.
use super::text_of;
use super::told::is_told_by_default;
use example_types::document::{Document, Tag};
use std::alloc::Global;
use std::process::Abort;

/// A document with both switches on or off, a content and a tag.
pub fn document(
    rt: &impl Abort,
    alloc: Global,
    (check_format, check_length): (bool, bool),
    content: Option<&str>,
    tag: &str,
) -> Document {
    let content = match content {
        Some(text) => Some(text_of(rt, alloc, text)),
        None => None,
    };
    Document {
        check_format,
        check_length,
        content,
        tag: Tag(text_of(rt, alloc, tag)),
    }
}

/// A document's switches, content and tag, what is reported for it, and the nodes of that.
type Row<'a> = ((bool, bool), Option<&'a str>, &'a str, (&'a str, usize));

/// Documents, and what is reported for each.
static ROWS: [Row<'static>; 4] = [
    (
        (true, true),
        Some("é"),
        "t-1",
        ("content: not ascii\ncontent: length is lower than 10\n", 1),
    ),
    ((false, false), Some("é"), "t-1", ("", 0)),
    ((true, true), None, "t-1", ("content: not set\n", 1)),
    (
        (false, true),
        Some("é"),
        "x",
        (
            "content: length is lower than 10\ntag: value does not begin with \"t-\"\n",
            2,
        ),
    ),
];

#[test]
fn each_rule_under_its_condition(rt: HostRuntime) {
    for (switches, content, tag, told) in &ROWS {
        let document = document(&rt, rt.alloc(), *switches, *content, tag);
        assert!(rt;
            is_told_by_default(rt.alloc(), &document, *told),
            "at {}",
            told.0
        );
    }
}
