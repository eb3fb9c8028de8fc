//! TOML texts as JSON: the whole text of each document.

use crate::tests::is_text;
use crate::tests::long_text::Long;
use garde_toml::toml_to_json;
use std::alloc::Global;

static DOCUMENTS: [(&str, &str); 19] = [
    ("", "{}"),
    ("\u{feff}", "{}"),
    ("\u{feff}# a comment", "{}"),
    ("# a comment\r\n\n", "{}"),
    (
        "\u{feff}a = true\r\nb = false\r\n",
        r#"{"a":true,"b":false}"#,
    ),
    (
        "a = 9223372036854775807\nb = -9223372036854775808\nc = 0",
        r#"{"a":9223372036854775807,"b":-9223372036854775808,"c":0}"#,
    ),
    (
        "a = 0xFF\nb = 0o17\nc = 0b101\nd = 1_000\ne = +5\nf = -17\ng = -0",
        r#"{"a":255,"b":15,"c":5,"d":1000,"e":5,"f":-17,"g":0}"#,
    ),
    (
        "a = 1.0\nb = -0.0\nc = 0.1\nd = 1e300\ne = 1_0.5",
        r#"{"a":1.0,"b":-0.0,"c":0.1,"d":1e300,"e":10.5}"#,
    ),
    (
        "a = inf\nb = -inf\nc = nan\nd = +inf",
        r#"{"a":[-0,"inf"],"b":[-0,"-inf"],"c":[-0,"nan"],"d":[-0,"inf"]}"#,
    ),
    (
        "a = \"\\u00E9 \\\"\\\\\\t\"\nb = 'C:\\n'\nc = \"\"\"\n1\n2\"\"\"\nd = ''",
        "{\"a\":\"\u{e9} \\\"\\\\\\t\",\"b\":\"C:\\\\n\",\"c\":\"1\\n2\",\"d\":\"\"}",
    ),
    (
        "a = 1979-05-27T07:32:00Z\nb = 1979-05-27 00:32:00.999999-07:00",
        r#"{"a":[-0,"1979-05-27T07:32:00Z"],"b":[-0,"1979-05-27T00:32:00.999999-07:00"]}"#,
    ),
    (
        "a = 2024-02-29\nb = 23:59:60\nc = 1979-05-27t07:32:00.500",
        r#"{"a":[-0,"2024-02-29"],"b":[-0,"23:59:60"],"c":[-0,"1979-05-27T07:32:00.5"]}"#,
    ),
    ("b = 1\nB = 2\na = 3", r#"{"B":2,"a":3,"b":1}"#),
    (
        "'a b' = 1\n\"\" = 2\n\"\\u001B\" = 3\n10 = 4",
        "{\"\":2,\"\\u001b\":3,\"10\":4,\"a b\":1}",
    ),
    ("a.b.c = 1\na.'b'.d = 2", r#"{"a":{"b":{"c":1,"d":2}}}"#),
    (
        "[a]\n[b.c]\nd = 1\n[b]\ne = 2",
        r#"{"a":{},"b":{"c":{"d":1},"e":2}}"#,
    ),
    (
        "a = { b = 1, c.d = 2 }\nb = {}",
        r#"{"a":{"b":1,"c":{"d":2}},"b":{}}"#,
    ),
    (
        "a = [1, [2, [3, []]], 'x', { b = [true] },]",
        r#"{"a":[1,[2,[3,[]]],"x",{"b":[true]}]}"#,
    ),
    (
        "[[a]]\nx = 1\n[[a]]\ny = 2\n[[a.b]]\nz = 3\n[a.c]\nz = 4\n[[a]]",
        r#"{"a":[{"x":1},{"b":[{"z":3}],"c":{"z":4},"y":2},{}]}"#,
    ),
];

#[test]
fn writes_each_value(rt: HostRuntime) {
    for (text, expected) in &DOCUMENTS {
        assert!(rt;
            is_text(toml_to_json(rt.alloc(), text), expected),
            "{expected}"
        );
    }
}

// Arrays as deep as they may nest, and ten thousand keys, each with its number. Where an array were asked
// twice how deep it nests, or written twice, the first took 2^79 steps.
static LONG: [(Long, Long); 2] = [
    (
        Long::Repeated("a = ", (79, "["), "1979-05-27, 1", (79, "]"), ""),
        Long::Repeated(
            "{\"a\":",
            (79, "["),
            "[-0,\"1979-05-27\"],1",
            (79, "]"),
            "}",
        ),
    ),
    (
        Long::Numbered("k10000 = 10000", (10_001, 20_000), ("\nk", " = "), "\n"),
        Long::Numbered("{\"k10000\":10000", (10_001, 20_000), (",\"k", "\":"), "}"),
    ),
];

// Whether a document is written as this text.
fn is_written(alloc: Global, document: &Long, text: &Long) -> bool {
    match document.text(alloc) {
        Ok(document) => text.is(alloc, toml_to_json(alloc, document.as_str())),
        Err(_) => false,
    }
}

#[test]
fn writes_long_and_deep_documents(rt: HostRuntime) {
    for (document, text) in &LONG {
        assert!(rt; is_written(rt.alloc(), document, text));
    }
}
