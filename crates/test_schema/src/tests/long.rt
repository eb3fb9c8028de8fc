//! Long and deep bodies that are read by a form: the whole report of each, or its value.

use super::long_text::Long;
use super::told::{Case, Tells, told_of};
use super::{lists, maps, nested};
use std::alloc::Global;

/// Whether a body reads as this.
pub fn is_told<T: Tells>(alloc: Global, form: &T, body: &Long, told: &Long) -> bool {
    match body.text(alloc) {
        Ok(body) => told.is(alloc, told_of(alloc, form, body.as_str().as_bytes())),
        Err(_) => false,
    }
}

// What a name and a list of lists read as.
const VALID: &str = "((TextRef(\"Ada\"), None), ((None, Some(())), ((None, None), (None, None))))";

const TOO_DEEP: &str = "nested deeper than 128 at line 1 column 148";

const NO_U128: &str = "out of range: 0 to 340282366920938463463374607431768211455\n";

// Bodies, and what each reads as, in English.
static BODIES: [(Case, Long, Long); 15] = [
    // A list of numbers below zero.
    (
        Case::Lists(lists::Case::Numbers),
        Long::Numbered("[-0", (1, 300), (",-", ""), "]"),
        Long::Numbered(
            "[0]: not a whole number\n[1",
            (2, 300),
            ("]: out of range: 0 to 65535\n[", ""),
            "]: out of range: 0 to 65535\n",
        ),
    ),
    // Numbers of a thousand digits, in a member that takes any value and in one of 8 bits.
    (
        Case::Json,
        Long::Repeated(
            "{\"name\":\"Ada\",\"any\":",
            (1000, "9"),
            ",\"age\":",
            (1000, "9"),
            "}",
        ),
        Long::Text("age: out of range: 0 to 255\n"),
    ),
    (
        Case::Json,
        Long::Repeated(
            "{\"name\":\"Ada\",\"any\":",
            (1000, "9"),
            ",\"age\":0.",
            (1000, "9"),
            "}",
        ),
        Long::Text("age: not a whole number\n"),
    ),
    (
        Case::Wide(false),
        Long::Repeated("", (1000, "9"), "", (0, ""), ""),
        Long::Text(NO_U128),
    ),
    (
        Case::Wide(true),
        Long::Repeated("", (1000, "9"), "", (0, ""), ""),
        Long::Text("greater than 7\n"),
    ),
    // Members that are not known behind one that is.
    (
        Case::Json,
        Long::Numbered("{\"name\":\"Ada\"", (0, 2_000), (",\"k", "\":"), "}"),
        Long::Numbered(
            "k0",
            (1, 2_000),
            (": not known here\nk", ""),
            ": not known here\n",
        ),
    ),
    // Lists, one in the other, in an object.
    (
        Case::Json,
        Long::Repeated(
            "{\"name\":\"Ada\",\"any\":",
            (126, "["),
            "",
            (126, "]"),
            "}",
        ),
        Long::Text(VALID),
    ),
    (
        Case::Json,
        Long::Repeated(
            "{\"name\":\"Ada\",\"any\":",
            (127, "["),
            "",
            (127, "]"),
            "}",
        ),
        Long::Text(VALID),
    ),
    (
        Case::Json,
        Long::Repeated(
            "{\"name\":\"Ada\",\"any\":",
            (128, "["),
            "",
            (128, "]"),
            "}",
        ),
        Long::Text(TOO_DEEP),
    ),
    (
        Case::Json,
        Long::Repeated(
            "{\"name\":\"Ada\",\"any\":",
            (200_000, "["),
            "",
            (200_000, "]"),
            "}",
        ),
        Long::Text(TOO_DEEP),
    ),
    // An object with any names, whose last name is another one or the first.
    (
        Case::Maps(maps::Case::Numbers),
        Long::Numbered("{\"k0\":0", (1, 1_000), (",\"k", "\":"), ",\"end\":1000}"),
        Long::Numbered(
            "Items([(TextRef(\"k0\"), 0",
            (1, 1_000),
            ("), (TextRef(\"k", "\"), "),
            "), (TextRef(\"end\"), 1000)])",
        ),
    ),
    (
        Case::Maps(maps::Case::Numbers),
        Long::Numbered("{\"k0\":0", (1, 1_000), (",\"k", "\":"), ",\"k0\":1000}"),
        Long::Text("k0: repeated\n"),
    ),
    // Folders, each in the one before.
    (
        Case::Nested(nested::Case::Closed),
        Long::Repeated(
            "",
            (60, "{\"name\":\"a\",\"folders\":["),
            "",
            (60, "]}"),
            "",
        ),
        Long::Repeated(
            "",
            (
                60,
                "Folder { name: TextRef(\"a\"), size: None, folders: Items([",
            ),
            "",
            (60, "]) }"),
            "",
        ),
    ),
    // Folders in one folder.
    (
        Case::Nested(nested::Case::Open),
        Long::Numbered(
            "{\"name\":\"a\",\"folders\":[{\"name\":\"a\",\"folders\":[],\"size\":0",
            (1, 10_000),
            ("},{\"name\":\"a\",\"folders\":[],\"size\":", ""),
            "}]}",
        ),
        Long::Numbered(
            "Folder { name: TextRef(\"a\"), size: None, folders: Items([Folder { name: TextRef(\"a\"), size: Some(0",
            (1, 10_000),
            (
                "), folders: Items([]) }, Folder { name: TextRef(\"a\"), size: Some(",
                "",
            ),
            "), folders: Items([]) }]) }",
        ),
    ),
    (
        Case::Nested(nested::Case::Closed),
        Long::Numbered(
            "{\"name\":\"a\",\"folders\":[{\"name\":\"a\",\"folders\":[],\"x\":0",
            (1, 10_000),
            ("},{\"name\":\"a\",\"folders\":[],\"x\":", ""),
            "}]}",
        ),
        Long::Numbered(
            "folders[0",
            (1, 10_000),
            ("].x: not known here\nfolders[", ""),
            "].x: not known here\n",
        ),
    ),
];

#[test]
fn reads_long_and_deep_bodies(rt: HostRuntime) {
    for (row, (case, body, told)) in BODIES.iter().enumerate() {
        assert!(rt; is_told(rt.alloc(), case, body, told), "row {row}");
    }
}
