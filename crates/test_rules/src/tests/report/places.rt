//! Places of faults in a JSON text, beside lines and columns that were counted by hand.

use crate::tests::report::samples::{path_of, report_of};
use crate::tests::{OrEnd, is_text};
use garde_places::{Fault, Format, GitHub, Places, Short, sort_by_place};
use garde_report::Report;
use garde_tape::{Scratch, parse};
use std::alloc::Global;
use std::fmt::Display;
use std::process::Abort;

/// Lines that end in CR LF, tabs, characters beyond ASCII, texts and names with escapes, names that
/// come twice, and names that are numbers.
const SETTINGS: &str =
    "{\r\n\t\"server\": {\"host\": \"k\u{e4}se\", \"port\": 70000},\r\n  \"routes\": [\r\n    {\"path\": \"/\", \"to\": [\"\u{1f600}, ]\", \"b\\\"\\n\" , true]},\r\n    {\"path\": \"/x\", \"path\": \"/y\", \"ex\\u0074ra\": null}\r\n  ],\r\r\n  \"ports\": {\"7\": {\"8\": [ ]}} }";

/// A path as `path_of` reads it, the place of its value, and that of its name: each a line and a column.
type Row = (&'static str, (usize, usize), (usize, usize));

static PLACES: [Row; 16] = [
    ("", (1, 1), (1, 1)),
    ("?>", (1, 1), (1, 1)),
    ("server>port>", (2, 37), (2, 29)),
    ("routes>#0>to>#0>", (4, 26), (4, 25)),
    ("routes>#0>to>#1>", (4, 34), (4, 25)),
    ("routes>#0>to>#2>", (4, 44), (4, 25)),
    ("routes>#0>to>#3>", (4, 25), (4, 25)),
    ("routes>?>#1>path>", (5, 28), (5, 20)),
    ("routes>#1>extra>", (5, 48), (5, 34)),
    ("routes>#1>to>", (5, 5), (5, 5)),
    ("routes>#7>to>", (3, 13), (3, 13)),
    ("routes>to>#0>", (3, 13), (3, 13)),
    ("routes>#0>path>path>", (4, 14), (4, 14)),
    ("ports>", (7, 12), (7, 3)),
    ("ports>#7>", (7, 18), (7, 13)),
    ("ports>#7>#8>", (7, 24), (7, 19)),
];

// Whether a path leads to a value and a name at these places.
fn stands(rt: &impl Abort, alloc: Global, places: &mut Places<'_, '_>, row: &Row) -> bool {
    let path = path_of(rt, alloc, row.0);
    let value = places.locate(alloc, &path).or_end(rt);
    let name = places.locate_name(alloc, &path).or_end(rt);
    (value.line, value.column) == row.1 && (name.line, name.column) == row.2
}

/// Members of a wide object, in the same way.
static WIDE: [Row; 6] = [
    ("k7>", (301, 6), (301, 1)),
    ("k0>", (1, 7), (1, 2)),
    ("k7>", (301, 6), (301, 1)),
    ("k299>", (300, 8), (300, 1)),
    ("k300>", (1, 1), (1, 1)),
    ("k8>", (9, 6), (9, 1)),
];

// An object of 300 members, each in a line of its own, and another of the name of the eighth.
fn wide_text(rt: &impl Abort, alloc: Global) -> String {
    let mut text = String::new(alloc);
    text.push('{').or_end(rt);
    for number in 0..300 {
        writeln!(text, "\"k{number}\":{{}},").or_end(rt);
    }
    text.push_str("\"k7\":[]}").or_end(rt);
    text
}

// Asserts that each row holds, in their order.
fn assert_stand(rt: &impl Abort, alloc: Global, places: &mut Places<'_, '_>, rows: &[Row]) {
    for row in rows {
        assert!(rt; stands(rt, alloc, places, row), "{}", row.0);
    }
}

// Asserts that each row holds, from the last on.
fn assert_stand_back(rt: &impl Abort, alloc: Global, places: &mut Places<'_, '_>, rows: &[Row]) {
    for row in rows.iter().rev() {
        assert!(rt; stands(rt, alloc, places, row), "{}", row.0);
    }
}

// Asserts that each row, asked in their order and then backwards, holds of a text.
fn assert_standing(rt: &impl Abort, alloc: Global, text: &str, rows: &[Row]) {
    let mut scratch = Scratch::new(alloc);
    let Ok(tape) = parse(alloc, text, &mut scratch) else {
        rt.abort()
    };
    let mut places = Places::of(alloc, text, &tape).or_end(rt);
    assert_stand(rt, alloc, &mut places, rows);
    assert_stand_back(rt, alloc, &mut places, rows);
}

#[test]
fn values_and_names_stand_where_they_are_counted(rt: HostRuntime) {
    let alloc = rt.alloc();
    assert_standing(&rt, alloc, SETTINGS, &PLACES);
    assert_standing(&rt, alloc, wide_text(&rt, alloc).as_str(), &WIDE);
}

/// Faults with and without a code, two of them at the root's place.
static FAULTS: [(&str, &str); 6] = [
    (
        "routes>#1>extra>",
        "\u{1f}member_unknown\u{1f}not known here\u{1f}",
    ),
    (
        "routes>#1>path>",
        "\u{1f}member_repeated\u{1f}repeated\u{1f}",
    ),
    (
        "server>port>",
        "\u{1f}greater_than\u{1f}greater than 65535\u{1f}max\u{1f}65535\u{1f}",
    ),
    ("", "100% wrong: a,b\nor\r\\"),
    ("routes>#1>to>", "missing"),
    ("a\nb: c>", "missing"),
];

/// The name of a file, with characters that mean something in a line.
const FILE: &str = "a:b,%\n\u{1b}.json";

/// What they print by their places.
const SHORT: &str = "\
a\\u{3a}b,%\\n\\u{1b}.json:1:1: error: 100% wrong: a,b\\nor\\r\\\\
a\\u{3a}b,%\\n\\u{1b}.json:1:1: error: a\\nb: c: missing
a\\u{3a}b,%\\n\\u{1b}.json:2:37: error: server.port: greater than 65535
a\\u{3a}b,%\\n\\u{1b}.json:5:5: error: routes[1].to: missing
a\\u{3a}b,%\\n\\u{1b}.json:5:20: error: routes[1].path: repeated
a\\u{3a}b,%\\n\\u{1b}.json:5:34: error: routes[1].extra: not known here
";

/// What they print as annotations.
const ANNOTATIONS: &str = "\
::error file=a%3Ab%2C%25%0A\\u{1b}.json,line=1,col=1::100%25 wrong: a,b\\nor\\r\\\\
::error file=a%3Ab%2C%25%0A\\u{1b}.json,line=1,col=1::a\\nb: c: missing
::error file=a%3Ab%2C%25%0A\\u{1b}.json,line=2,col=37::server.port: greater than 65535
::error file=a%3Ab%2C%25%0A\\u{1b}.json,line=5,col=5::routes[1].to: missing
::error file=a%3Ab%2C%25%0A\\u{1b}.json,line=5,col=20::routes[1].path: repeated
::error file=a%3Ab%2C%25%0A\\u{1b}.json,line=5,col=34::routes[1].extra: not known here
";

/// What they print as JSON.
const OBJECTS: &str = "\
{\"file\":\"a:b,%\\n\\u001b.json\",\"path\":\"\",\"pointer\":\"\",\"line\":1,\"column\":1,\"detail\":\"100% wrong: a,b\\nor\\r\\\\\",\"code\":\"custom\",\"params\":{}}
{\"file\":\"a:b,%\\n\\u001b.json\",\"path\":\"a\\\\nb: c\",\"pointer\":\"/a\\nb: c\",\"line\":1,\"column\":1,\"detail\":\"missing\",\"code\":\"custom\",\"params\":{}}
{\"file\":\"a:b,%\\n\\u001b.json\",\"path\":\"server.port\",\"pointer\":\"/server/port\",\"line\":2,\"column\":37,\"detail\":\"greater than 65535\",\"code\":\"greater_than\",\"params\":{\"max\":\"65535\"}}
{\"file\":\"a:b,%\\n\\u001b.json\",\"path\":\"routes[1].to\",\"pointer\":\"/routes/1/to\",\"line\":5,\"column\":5,\"detail\":\"missing\",\"code\":\"custom\",\"params\":{}}
{\"file\":\"a:b,%\\n\\u001b.json\",\"path\":\"routes[1].path\",\"pointer\":\"/routes/1/path\",\"line\":5,\"column\":20,\"detail\":\"repeated\",\"code\":\"member_repeated\",\"params\":{}}
{\"file\":\"a:b,%\\n\\u001b.json\",\"path\":\"routes[1].extra\",\"pointer\":\"/routes/1/extra\",\"line\":5,\"column\":34,\"detail\":\"not known here\",\"code\":\"member_unknown\",\"params\":{}}
";

// Asserts that each of these faults stands at its place where it is asked for alone.
fn assert_placed(
    rt: &impl Abort,
    alloc: Global,
    places: &mut Places<'_, '_>,
    faults: &[Fault<'_>],
) {
    for fault in faults {
        let place = places
            .locate_fault(alloc, fault.path, fault.error)
            .or_end(rt);
        assert!(rt; place == fault.place);
    }
}

// The faults of a report by their places.
fn placed<'r>(rt: &impl Abort, alloc: Global, report: &'r Report) -> Vec<Fault<'r>> {
    let mut scratch = Scratch::new(alloc);
    let Ok(tape) = parse(alloc, SETTINGS, &mut scratch) else {
        rt.abort()
    };
    let mut places = Places::of(alloc, SETTINGS, &tape).or_end(rt);
    let mut faults = places.locate_all(alloc, report).or_end(rt);
    sort_by_place(&mut faults).or_end(rt);
    assert_placed(rt, alloc, &mut places, faults.as_slice());
    faults
}

// Adds a line with this value.
fn add_line<T: Display>(rt: &impl Abort, text: &mut String, value: &T) {
    writeln!(text, "{value}").or_end(rt);
}

// A line for each fault.
fn lines(rt: &impl Abort, alloc: Global, faults: &[Fault<'_>]) -> String {
    let mut text = String::new(alloc);
    for fault in faults {
        add_line(rt, &mut text, &Short(alloc, FILE, fault));
    }
    text
}

// An annotation for each fault.
fn annotations(rt: &impl Abort, alloc: Global, faults: &[Fault<'_>]) -> String {
    let mut text = String::new(alloc);
    for fault in faults {
        add_line(rt, &mut text, &GitHub(alloc, FILE, fault));
    }
    text
}

/// The name of a format, and what they print in it.
static FORMATS: [(&str, &str); 3] = [("short", SHORT), ("github", ANNOTATIONS), ("json", OBJECTS)];

// Whether faults are printed as this text in the format of this name.
fn are_printed(alloc: Global, faults: &[Fault<'_>], name: &str, text: &str) -> bool {
    match Format::of(name) {
        Some(format) => is_text(format.lines(alloc, FILE, faults), text),
        None => false,
    }
}

// Asserts that faults are printed in each format.
fn assert_printed(rt: &impl Abort, alloc: Global, faults: &[Fault<'_>]) {
    for (name, text) in &FORMATS {
        assert!(rt; are_printed(alloc, faults, name, text), "{name}");
    }
}

// Whether faults have their lines and their annotations.
fn have_lines(rt: &impl Abort, alloc: Global, faults: &[Fault<'_>]) -> bool {
    lines(rt, alloc, faults).as_str() == SHORT
        && annotations(rt, alloc, faults).as_str() == ANNOTATIONS
}

#[test]
fn faults_are_printed_in_each_format(rt: HostRuntime) {
    let report = report_of(&rt, rt.alloc(), &FAULTS);
    let faults = placed(&rt, rt.alloc(), &report);
    assert!(rt; have_lines(&rt, rt.alloc(), faults.as_slice()) && Format::of("plain").is_none());
    assert_printed(&rt, rt.alloc(), faults.as_slice());
}
