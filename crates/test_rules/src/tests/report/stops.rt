//! Where texts stop being JSON, beside places that were counted by hand, and the places of listed tokens.

use crate::tests::OrEnd;
use crate::tests::report::samples::{places_in_lines, report_of};
use garde_places::{Fault, ListedPlaces, Place, place_of_byte, stop_of};
use garde_report::Report;
use garde_tape::{ParseError, Scratch, parse, parse_bytes};
use std::alloc::Global;
use std::process::Abort;

/// A text, the line and the column where it stops, and why: 0, 0 and nothing for one that is JSON.
static STOPS: [(&[u8], usize, usize, &str); 58] = [
    (b"", 1, 1, "expected a value"),
    (b" \n\t", 2, 2, "expected a value"),
    (b"{\"a\": 1", 1, 8, "expected , or } after a member"),
    (b"{\"a\": 1]", 1, 8, "expected , or } after a member"),
    (b"[1 2]", 1, 4, "expected , or ] after an item"),
    (b"[1,]", 1, 4, "expected a value"),
    (b"[,", 1, 2, "expected a value or ]"),
    (b"{,", 1, 2, "expected a name or }"),
    (b"{\"a\":1,}", 1, 8, "expected a name"),
    (b"{\"a\" 1}", 1, 6, "expected : after a name"),
    (
        b"[\"\xc3\xa4\"]\r\nx",
        2,
        1,
        "expected nothing after the value",
    ),
    (b"[\"a", 1, 4, "a text is not closed"),
    (b"[\"\xc3\xa4\n\"]", 1, 4, "a control character in a text"),
    (b"\"\\q\"", 1, 3, "no such escape"),
    (b"\"\\u12x\"", 1, 6, "expected a hexadecimal digit"),
    (
        b"\"\\udc00\"",
        1,
        5,
        "expected no second half of a surrogate pair",
    ),
    (
        b"\"\\ud800\"",
        1,
        8,
        "expected the second half of a surrogate pair",
    ),
    (
        b"\"\\ud83d\\u0041\"",
        1,
        10,
        "expected the second half of a surrogate pair",
    ),
    (b"tru", 1, 4, "expected true, false or null"),
    (b"nulL", 1, 4, "expected true, false or null"),
    (b"-", 1, 2, "expected a digit"),
    (b"[01]", 1, 3, "expected , or ] after an item"),
    (b"1e+", 1, 4, "expected a digit"),
    (b"[\n\"\xff\"", 2, 2, "not UTF-8"),
    (b"[\"a\0\"]", 1, 4, "a control character in a text"),
    (b"[1]\0", 1, 4, "expected nothing after the value"),
    (b"[1\r2]", 1, 4, "expected , or ] after an item"),
    (
        b"[\"\\ud83d\\ude00\" x",
        1,
        17,
        "expected , or ] after an item",
    ),
    (
        b"[[[[[[[[[[[[[[[[[[[[[[[[[[[[[[[[[[[[[[[[[[[[[[[[[[[[[[[[[[[[[[[[[[[[[[[[[[[[[[[[[[[[[[[[[[[[[[[[[[[[[[[[[[[[[[[[[[[[[[[[[[[[[[[[[[[[[[[[[[[[[[[[[[[[[[[[[[[[[[[[[[[[[[[[[[[[[[[[[[[[[[[[[[[[[[[[[[[[[[[[",
        1,
        129,
        "nested deeper than 128",
    ),
    (b" ", 1, 2, "expected a value"),
    (b"\n\n", 3, 1, "expected a value"),
    (b"[", 1, 2, "expected a value or ]"),
    (b"{", 1, 2, "expected a name or }"),
    (b"{\"a\":", 1, 6, "expected a value"),
    (b"{\"a\":}", 1, 6, "expected a value"),
    (b"[\n\n  nul]", 3, 6, "expected true, false or null"),
    (b"]", 1, 1, "expected a value"),
    (b"[}", 1, 2, "expected a value or ]"),
    (b"{]", 1, 2, "expected a name or }"),
    (b"{} {}", 1, 4, "expected nothing after the value"),
    (b"+1", 1, 1, "expected a value"),
    (b"\xff{}", 1, 1, "not UTF-8"),
    (b"\\ud83d\\ude00", 1, 1, "expected a value"),
    (b"x\\ude00", 1, 1, "expected a value"),
    (
        b"\"a\" \"\\ud800\"",
        1,
        5,
        "expected nothing after the value",
    ),
    (b"\"\\u00dg\"", 1, 7, "expected a hexadecimal digit"),
    (b"\"\\udg", 1, 5, "expected a hexadecimal digit"),
    (
        b"\"\\ud83d\\u00",
        1,
        10,
        "expected the second half of a surrogate pair",
    ),
    (
        b"\"\\ud83d\\udcx",
        1,
        12,
        "expected the second half of a surrogate pair",
    ),
    (b"\"\\\\ud800\0", 1, 9, "a control character in a text"),
    (b"\"\\ud800", 1, 8, "a text is not closed"),
    (
        b"[\"\\ud83c\\udf00\" x",
        1,
        17,
        "expected , or ] after an item",
    ),
    (b"0", 0, 0, ""),
    (b"\"\\ud83c\\udf00\"", 0, 0, ""),
    (b" -1.5e-7 ", 0, 0, ""),
    (b"\"\\ud83d\\ude00\\\"\\/\\u00e4\"", 0, 0, ""),
    (
        b"{\"a\":[],\"b\":{},\"c\":[true,false,null,{\"d\":[1,-0.0]}]}\n",
        0,
        0,
        "",
    ),
    (b"[[],[[]], \"\" ]", 0, 0, ""),
];

// Where an input is refused that is not read.
fn refused_at(alloc: Global, input: &[u8]) -> Option<Place> {
    match parse_bytes(alloc, input, &mut Scratch::new(alloc)) {
        Err(
            ParseError::NotUtf8(place)
            | ParseError::NotJson(place)
            | ParseError::TooDeep(place)
            | ParseError::LoneSurrogate(place),
        ) => Some(place),
        _ => None,
    }
}

// Whether a text stops there, and is refused there.
fn stops(rt: &impl Abort, alloc: Global, row: &(&[u8], usize, usize, &str)) -> bool {
    let refused = refused_at(alloc, row.0);
    match stop_of(alloc, row.0).or_end(rt) {
        Some(stop) => {
            stop.place.line == row.1
                && stop.place.column == row.2
                && stop.why == row.3
                && refused == Some(stop.place)
        }
        None => row.3.is_empty() && refused.is_none(),
    }
}

#[test]
fn texts_stop_where_no_json_goes_on(rt: HostRuntime) {
    let alloc = rt.alloc();
    for row in &STOPS {
        assert!(rt; stops(&rt, alloc, row), "{}", row.3);
    }
}

/// Bytes of a text, and the place of each.
static BYTES: [(usize, Place); 6] = [
    (0, Place { line: 1, column: 1 }),
    (2, Place { line: 1, column: 2 }),
    (5, Place { line: 2, column: 1 }),
    (9, Place { line: 2, column: 2 }),
    (10, Place { line: 2, column: 3 }),
    (99, Place { line: 2, column: 3 }),
];

#[test]
fn bytes_are_counted_by_lines_and_characters(rt: HostRuntime) {
    for (offset, place) in &BYTES {
        assert!(rt; place_of_byte("\u{e4}\t\r\n\u{1f600}x".as_bytes(), *offset) == *place);
    }
}

/// A JSON text, and a place for each of its tokens: of the object, of the name, of the array and its items.
const LISTED: &str = "{\"a\":[1,2]}";

/// Faults of the second item, of an item that is missing, of the name, and of another name.
static FAULTS: [(&str, &str); 4] = [
    ("a>#1>", "lower"),
    ("a>#2>", "missing"),
    ("a>", "\u{1f}member_unknown\u{1f}not known here\u{1f}"),
    ("b>", "missing"),
];

// Whether these are four faults at these lines.
fn are_at(faults: &[Fault<'_>], lines: [usize; 4]) -> bool {
    match faults {
        [a, b, c, d] => lines == [a.place.line, b.place.line, c.place.line, d.place.line],
        _ => false,
    }
}

// Whether the faults of a report stand at these lines, by a list of places whose lines count the tokens.
fn are_listed(rt: &impl Abort, alloc: Global, report: &Report, lines: [usize; 4]) -> bool {
    let mut scratch = Scratch::new(alloc);
    let Ok(tape) = parse(alloc, LISTED, &mut scratch) else {
        rt.abort()
    };
    let places = places_in_lines(rt, alloc, 10, 17);
    let mut listed = ListedPlaces::of(LISTED, &tape, places);
    are_at(
        listed.locate_all(alloc, report).or_end(rt).as_slice(),
        lines,
    )
}

#[test]
fn faults_stand_where_the_list_says(rt: HostRuntime) {
    let alloc = rt.alloc();
    let report = report_of(&rt, alloc, &FAULTS);
    assert!(rt; are_listed(&rt, alloc, &report, [14, 12, 11, 10]));
}
