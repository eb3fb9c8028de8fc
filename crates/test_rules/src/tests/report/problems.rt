//! Pointers, escaped reports and problem details, beside texts written by hand.

use crate::tests::report::samples::{path_of, path_of_one, report_of};
use crate::tests::{OrEnd, has_text, is_text, printed};
use garde_problem::{
    Coded, Escaped, JsonPointer, Problem, coded_message, laws, problem_to_json_text,
};
use garde_report::Kind;
use std::alloc::Global;
use std::process::Abort;

/// A path that acts on a terminal.
const ACTING: &str = "a\nb: forged>#0>\u{1b}[2J\0>";

/// A fault whose key and message act on a terminal.
const HOSTILE: (&str, &str) = (
    ACTING,
    "\t\u{202e}\\\u{7f}\u{85}\u{2028}\r\u{2069}\u{61c}\u{200f}",
);

/// A path of plain texts, one of them beyond ASCII.
const SHOWN: &str = "#1>?>stra\u{df}e>";

/// A message without a code.
const LOWER: &str = "lower than 1";

/// A fault of plain texts.
const PLAIN: (&str, &str) = (SHOWN, LOWER);

/// A message with a code.
const TOO_MANY: &str = "\u{1f}too_many\u{1f}more than \"9\"\u{1f}max\u{1f}9\u{1f}a\nb\u{1f}\u{1f}";

/// A fault with a code.
const CODED: (&str, &str) = ("count>", TOO_MANY);

/// A fault at the root.
const ROOT: (&str, &str) = ("", "\u{1}");

/// The examples of RFC 6901, section 5, and what they leave out: a path as `path_of` reads it, its pointer, and how
/// it is escaped.
static PATHS: [(&str, &str, &str); 20] = [
    ("", "", ""),
    ("foo>", "/foo", "foo"),
    ("foo>#0>", "/foo/0", "foo[0]"),
    (">", "/", ""),
    ("a/b>", "/a~1b", "a/b"),
    ("c%d>", "/c%d", "c%d"),
    ("e^f>", "/e^f", "e^f"),
    ("g|h>", "/g|h", "g|h"),
    ("i\\j>", "/i\\j", "i\\\\j"),
    ("k\"l>", "/k\"l", "k\"l"),
    (" >", "/ ", " "),
    ("m~n>", "/m~0n", "m~n"),
    ("~1>/~0/>", "/~01/~1~00~1", "~1./~0/"),
    ("?>?>", "//", ""),
    (
        "\0\u{1b}\n\u{202e}>#-1>",
        "/\0\u{1b}\n\u{202e}/-1",
        "\\u{0}\\u{1b}\\n\\u{202e}[-1]",
    ),
    (
        "a.b[0]~a text beyond the room of a component>",
        "/a.b[0]~0a text beyond the room of a component",
        "a.b[0]~a text beyond the room of a component",
    ),
    // More components than a walk along a path holds without memory.
    (
        "~>~>~>~>~>~>~>~>~>~>~>~>",
        "/~0/~0/~0/~0/~0/~0/~0/~0/~0/~0/~0/~0",
        "~.~.~.~.~.~.~.~.~.~.~.~",
    ),
    (
        ACTING,
        "/a\nb: forged/0/\u{1b}[2J\0",
        "a\\nb: forged[0].\\u{1b}[2J\\u{0}",
    ),
    (SHOWN, "/1//stra\u{df}e", "[1].stra\u{df}e"),
    (
        "?\u{2066}>#\u{9f}>\u{a0}\u{200d}\u{202f}>",
        "/\u{2066}/\u{9f}/\u{a0}\u{200d}\u{202f}",
        "\\u{2066}[\\u{9f}].\u{a0}\u{200d}\u{202f}",
    ),
];

// Whether a path has this pointer, and prints this where it is escaped.
fn is_path(rt: &impl Abort, alloc: Global, (path, pointer, escaped): &(&str, &str, &str)) -> bool {
    let path = path_of(rt, alloc, path);
    has_text(rt, alloc, &JsonPointer(alloc, &path), pointer)
        && has_text(rt, alloc, &Escaped(alloc, &path), escaped)
}

#[test]
fn pointers_of_paths(rt: HostRuntime) {
    for row in &PATHS {
        assert!(rt; is_path(&rt, rt.alloc(), row), "at {}", row.1);
    }
}

/// What a key repeats, and how long its pointer and its escaped text are.
static LONG: [(&str, usize, usize); 3] = [
    ("~", 2_097_153, 1_048_576),
    ("\u{1b}", 1_048_577, 6_291_456),
    ("a", 1_048_577, 1_048_576),
];

// Whether the path of a key that is this text a million times has so long a pointer, and so long an
// escaped text.
fn is_long(rt: &impl Abort, alloc: Global, text: &str, pointer: usize, escaped: usize) -> bool {
    let key = text.repeat(alloc, 1_048_576).or_end(rt);
    let path = path_of_one(rt, alloc, Kind::Key, key.as_str());
    printed(rt, alloc, &JsonPointer(alloc, &path)).len() == pointer
        && printed(rt, alloc, &Escaped(alloc, &path)).len() == escaped
}

#[test]
fn a_key_of_a_megabyte_is_printed_whole(rt: HostRuntime) {
    for (text, pointer, escaped) in &LONG {
        assert!(rt; is_long(&rt, rt.alloc(), text, *pointer, *escaped));
    }
}

/// Faults: the path of each, and its message.
const FAULTS: &[(&str, &str)] = &[HOSTILE, PLAIN, ROOT];

/// The lines of these faults where they are escaped.
const LINES: &str =
    "a\\nb: forged[0].\\u{1b}[2J\\u{0}: \\t\\u{202e}\\\\\\u{7f}\\u{85}\\u{2028}\\r\\u{2069}\\u{61c}\\u{200f}\n[1].stra\u{df}e: lower than 1\n\\u{1}\n";

/// Problem details with the members that all have.
const SHORT: Problem<'static> = Problem {
    type_uri: None,
    title: "the body has faults",
    status: 422,
    detail: None,
    instance: None,
};

/// Problem details with every member.
const FULL: Problem<'static> = Problem {
    type_uri: Some("https://example.org/faults"),
    title: "\"quoted\"",
    status: 65535,
    detail: Some("2 faults"),
    instance: Some("/orders/7"),
};

/// Faults, what their report prints where it is escaped, problem details, and the text of both.
static DETAILS: [(&[(&str, &str)], &str, &Problem<'_>, &str); 4] = [
    (
        &[],
        "",
        &SHORT,
        r#"{"title":"the body has faults","status":422,"errors":[]}"#,
    ),
    (
        FAULTS,
        LINES,
        &SHORT,
        "{\"title\":\"the body has faults\",\"status\":422,\"errors\":[{\"pointer\":\"/a\\nb: forged/0/\\u001b[2J\\u0000\",\"detail\":\"\\t\u{202e}\\\\\u{7f}\u{85}\u{2028}\\r\u{2069}\u{61c}\u{200f}\",\"code\":\"custom\",\"params\":{}},{\"pointer\":\"/1//stra\u{df}e\",\"detail\":\"lower than 1\",\"code\":\"custom\",\"params\":{}},{\"pointer\":\"\",\"detail\":\"\\u0001\",\"code\":\"custom\",\"params\":{}}]}",
    ),
    (
        &[PLAIN],
        "[1].stra\u{df}e: lower than 1\n",
        &FULL,
        "{\"type\":\"https://example.org/faults\",\"title\":\"\\\"quoted\\\"\",\"status\":65535,\"detail\":\"2 faults\",\"instance\":\"/orders/7\",\"errors\":[{\"pointer\":\"/1//stra\u{df}e\",\"detail\":\"lower than 1\",\"code\":\"custom\",\"params\":{}}]}",
    ),
    (
        &[CODED],
        "count: \\u{1f}too_many\\u{1f}more than \"9\"\\u{1f}max\\u{1f}9\\u{1f}a\\nb\\u{1f}\\u{1f}\n",
        &SHORT,
        r#"{"title":"the body has faults","status":422,"errors":[{"pointer":"/count","detail":"more than \"9\"","code":"too_many","params":{"max":"9","a\nb":""}}]}"#,
    ),
];

// Whether the report of these faults prints these lines where it is escaped, and its problem details are
// this text.
fn is_report(
    rt: &impl Abort,
    alloc: Global,
    (faults, lines, problem, text): &(&[(&str, &str)], &str, &Problem<'_>, &str),
) -> bool {
    let report = report_of(rt, alloc, faults);
    is_text(problem_to_json_text(alloc, &report, problem), text)
        && has_text(rt, alloc, &Escaped(alloc, &report), lines)
}

#[test]
fn problem_details_of_reports(rt: HostRuntime) {
    for row in &DETAILS {
        assert!(rt; is_report(&rt, rt.alloc(), row));
    }
}

/// The name and the value of each of two parameters, where a message has them.
type Params<'a> = (Option<(&'a str, &'a str)>, Option<(&'a str, &'a str)>);

/// A message, and its code, its detail and its parameters.
static PARTED: [(&str, &str, &str, Params<'_>); 11] = [
    ("", "custom", "", (None, None)),
    (
        "a\u{1f}b\u{1f}c\u{1f}",
        "custom",
        "a\u{1f}b\u{1f}c\u{1f}",
        (None, None),
    ),
    ("\u{1f}", "custom", "\u{1f}", (None, None)),
    ("\u{1f}a", "custom", "\u{1f}a", (None, None)),
    ("\u{1f}a\u{1f}", "a", "", (None, None)),
    ("\u{1f}a\u{1f}b", "a", "b", (None, None)),
    ("\u{1f}a\u{1f}b\u{1f}", "a", "b", (None, None)),
    ("\u{1f}a\u{1f}b\u{1f}c", "a", "b", (None, None)),
    (
        "\u{1f}a\u{1f}b\u{1f}c\u{1f}d",
        "a",
        "b",
        (Some(("c", "d")), None),
    ),
    (
        TOO_MANY,
        "too_many",
        "more than \"9\"",
        (Some(("max", "9")), Some(("a\nb", ""))),
    ),
    (LOWER, "custom", "lower than 1", (None, None)),
];

// Whether a message has this code and detail, and these parameters.
fn is_parted(message: &str, code: &str, detail: &str, wanted: Params<'_>) -> bool {
    let mut coded = Coded::of(message);
    let params = (coded.params.next(), coded.params.next());
    params == wanted
        && coded.params.next().is_none()
        && coded.code == code
        && coded.detail == detail
}

#[test]
fn messages_are_parted(rt: HostRuntime) {
    for (message, code, detail, params) in &PARTED {
        assert!(rt; is_parted(message, code, detail, *params), "{message}");
    }
}

/// A code and a detail, parameters, and the message.
static CODES: [((&str, &str), &[(&str, &str)], &str); 3] = [
    (("", ""), &[], "\u{1f}\u{1f}\u{1f}"),
    (("odd", "not even"), &[], "\u{1f}odd\u{1f}not even\u{1f}"),
    (
        ("too_many", "more than \"9\""),
        &[("max", "9"), ("a\nb", "")],
        TOO_MANY,
    ),
];

#[test]
fn messages_with_codes(rt: HostRuntime) {
    for ((code, detail), params, text) in &CODES {
        assert!(rt; is_text(coded_message(rt.alloc(), code, detail, params), text));
    }
}

#[test]
fn the_laws_of_problems_are_called(_rt: HostRuntime) {
    laws::pointers_are_read();
    laws::pointers_differ();
    laws::faults_are_lines();
    laws::escaped_texts_are_shown();
    laws::escaped_reports_are_shown();
    laws::shown_texts_stay();
    laws::coded_messages_are_read();
    laws::other_messages_are_custom();
}
