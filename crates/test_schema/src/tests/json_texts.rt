//! Bytes that are read by a form: the value of each, its whole report, or where they stop to be JSON.

use super::is_text;
use super::told::{Case, check, told};
use garde::fields::Is;
use garde::{DefaultI18n, length};
use garde_schema::{
    Any, Closed, Member, Null, Object, Optional, ParseError, Place, ReadError, Scratch, Text, Tree,
    U8, Whole, read_json,
};
use std::alloc::{AllocError, Global};
use std::process::Abort;

/// A name, perhaps an age, a town and whatever there is, and names that a path may confuse.
pub fn person(alloc: Global, tree: &Tree<'_, '_>) -> Result<String, AllocError> {
    let town = Object(Closed(Member("town", Text(Is(length!(min = 2))))));
    let person = Closed((
        (
            Member("name", Text(Is(length!(min = 3)))),
            Optional("age", Whole(U8, ())),
        ),
        (
            (Optional("address", town), Optional("any", Any)),
            (
                (Optional("a.b", Null), Optional("[0]", Null)),
                (Optional("", Null), Optional("\0\n", Null)),
            ),
        ),
    ));
    told(alloc, tree, &Object(person))
}

// Bodies, and what each reads as.
const VALUES: &[(&[u8], &str)] = &[
    (
        b"{\"name\":\"Ada\"}",
        "((TextRef(\"Ada\"), None), ((None, None), ((None, None), (None, None))))",
    ),
    (
        b" {\"any\":[{}],\"address\":{\"town\":\"Ulm\"},\n\"age\":255,\"name\":\"\\u0041da\\n\"} ",
        "((TextRef(\"Ada\\n\"), Some(255)), ((Some(TextRef(\"Ulm\")), Some(())), ((None, None), (None, None))))",
    ),
    (
        b"{\"\\u0000\\n\":null,\"\":null,\"[0]\":null,\"a.b\":null,\"name\":\"Ada\"}",
        "((TextRef(\"Ada\"), None), ((None, None), ((Some(()), Some(())), (Some(()), Some(())))))",
    ),
    (
        b"\xef\xbb\xbf{\"name\":\"Ada\"}",
        "((TextRef(\"Ada\"), None), ((None, None), ((None, None), (None, None))))",
    ),
    (
        b"{\"name\":\"\\\\ud800\\ud83d\\ude00\"}",
        "((TextRef(\"\\\\ud800\u{1f600}\"), None), ((None, None), ((None, None), (None, None))))",
    ),
];

// Bytes that stop being JSON before a value, and where.
const NO_VALUE: &[(&[u8], &str)] = &[
    (b"", "not JSON at line 1 column 1"),
    (b" \n ", "not JSON at line 2 column 2"),
    (b"\xef\xbb\xbf\xef\xbb\xbf{}", "not JSON at line 1 column 1"),
    (b"\xef\xbb\xbf", "not JSON at line 1 column 1"),
    (b"\xef\xbb{}", "not UTF-8 at line 1 column 1"),
    (b"\xed\xa0\x80", "not UTF-8 at line 1 column 1"),
];

// Bytes that stop being JSON, and where.
const STOPS: &[(&[u8], &str)] = &[
    (
        b"\xef\xbb\xbf{\"name\":\xef\xbb\xbf\"Ada\"}",
        "not JSON at line 1 column 9",
    ),
    (
        b"{\"name\":\"A\\ud800\"}",
        "a lone surrogate at line 1 column 17",
    ),
    (
        b"{\"name\":\n\"\\ud83d\\ude00\\uDE00\"}",
        "a lone surrogate at line 2 column 17",
    ),
    (
        b"{\"a\\udbff\\u0041\":1}",
        "a lone surrogate at line 1 column 12",
    ),
    (b"{\"name\":\"\\ud8\"}", "not JSON at line 1 column 14"),
    (b"{\"name\":\"\xff\"}", "not UTF-8 at line 1 column 10"),
    (b"{\n\"name\":\n\"Ad\xc3", "not UTF-8 at line 3 column 4"),
    (b"{\"name\":Ada}", "not JSON at line 1 column 9"),
    (b"{\"name\":\"Ada\"} {}", "not JSON at line 1 column 16"),
    (b"{\"name\":\"Ada\",}", "not JSON at line 1 column 15"),
    (
        b"{\"name\":\"Ada\",\n\"any\":[1,]}",
        "not JSON at line 2 column 10",
    ),
    (b"{\"name\":\"Ada\"", "not JSON at line 1 column 14"),
    (b"{\"name\":'Ada'}", "not JSON at line 1 column 9"),
    (b"{name:\"Ada\"}", "not JSON at line 1 column 2"),
    (
        b"{\"name\":\"Ada\",\"age\":018}",
        "not JSON at line 1 column 22",
    ),
    (
        b"{\"name\":\"Ada\",\"age\":NaN}",
        "not JSON at line 1 column 21",
    ),
    (
        b"{\"name\":\"\\ud800\"}",
        "a lone surrogate at line 1 column 16",
    ),
    (
        b"{\"name\":\"\\udc00\\ud800\"}",
        "a lone surrogate at line 1 column 13",
    ),
    (b"\\ud83d\\ude00", "not JSON at line 1 column 1"),
    (b"\"a\" \"\\ud800\"", "not JSON at line 1 column 5"),
    (b"{\"\\ud800\":1}", "a lone surrogate at line 1 column 9"),
    (b"{\"name\":\"A\nda\"}", "not JSON at line 1 column 11"),
];

// Bodies with faults, and the whole report of each.
const FAULTS: &[(&[u8], &str)] = &[
    (b"null", "not an object\n"),
    (b"[]", "not an object\n"),
    (b"[{\"name\":\"Ada\"}]", "not an object\n"),
    (b"\"name\"", "not an object\n"),
    (b"0", "not an object\n"),
    (b"{}", "name: missing\n"),
    (
        b"{\"name\":null,\"age\":null,\"address\":null,\"any\":null,\"b\":null}",
        "name: not a text\nage: not a whole number\naddress: not an object\nb: not known here\n",
    ),
    (
        b"{\"name\":[],\"age\":[18],\"address\":[\"town\"],\"any\":[]}",
        "name: not a text\nage: not a whole number\naddress: not an object\n",
    ),
    (
        b"{\"name\":\"Al\",\"age\":256,\"address\":{\"town\":null}}",
        "name: length is lower than 3\nage: out of range: 0 to 255\naddress.town: not a text\n",
    ),
    (
        b"{\"name\":\"Ada\",\"address\":{\"town\":\"U\",\"street\":{\"no\":null}}}",
        "address.town: length is lower than 2\naddress.street: not known here\n",
    ),
    (
        b"{\"name\":\"Ada\",\"a.b\":0,\"[0]\":0,\"\":0,\"\\u0000\\n\":0}",
        "a.b: not null\n[0]: not null\n: not null\n\0\n: not null\n",
    ),
    (
        b"{\"name\":\"Ada\",\"a.c\":0,\"[1]\":0,\"\\u0000\":0,\"\\n\":0}",
        "a.c: not known here\n[1]: not known here\n\0: not known here\n\n: not known here\n",
    ),
    (
        b"{\"__proto__\":{\"name\":\"Ada\"},\"constructor\":{}}",
        "name: missing\n__proto__: not known here\nconstructor: not known here\n",
    ),
    (
        b"{\"name\":\"Ada\",\"\":null,\"\":null,\"\\u006eame\":\"Bob\"}",
        "name: repeated\n: repeated\n",
    ),
    (
        b"{\"NAME\":\"Ada\",\"name \":\"Ada\",\"n\\u0430me\":\"Ada\"}",
        "name: missing\nNAME: not known here\nname : not known here\nn\u{430}me: not known here\n",
    ),
];

// Ends at the first of these bodies of which something else is told.
fn check_bodies(rt: &impl Abort, alloc: Global, bodies: &[(&[u8], &str)]) {
    for (body, expected) in bodies {
        check(rt, alloc, &Case::Json, body, expected);
    }
}

#[test]
fn reads_bytes_by_a_form(rt: HostRuntime) {
    check_bodies(&rt, rt.alloc(), VALUES);
    check_bodies(&rt, rt.alloc(), NO_VALUE);
    check_bodies(&rt, rt.alloc(), STOPS);
    check_bodies(&rt, rt.alloc(), FAULTS);
}

// What is told of bytes with a name.
fn told_of_name(alloc: Global, bytes: &[u8]) -> Result<String, AllocError> {
    let form = Object(Member("name", Text(Is(length!(min = 3)))));
    let mut scratch = Scratch::new(alloc);
    match read_json(alloc, bytes, &mut scratch, &form, &DefaultI18n) {
        Ok(name) => format!(in alloc; "{}", name.text()),
        Err(error) => error.to_string(alloc),
    }
}

const NAMES: &[(&[u8], &str)] = &[
    (b"{\"name\":\"Ada\"}", "Ada"),
    (b" {\"name\":\"\\u0041da\\n\",\"age\":1} ", "Ada\n"),
    (b"{\"name\":\"A\"}", "name: length is lower than 3\n"),
    (b"{}", "name: missing\n"),
    (b"{\"name\":Ada}", "not JSON at line 1 column 9"),
    (b"{\"name\":\"\xff\"}", "not UTF-8 at line 1 column 10"),
];

#[test]
fn reads_a_name_from_bytes(rt: HostRuntime) {
    for (body, expected) in NAMES {
        assert!(rt;
            is_text(told_of_name(rt.alloc(), body), expected),
            "{expected}"
        );
    }
}

// The error of bytes that are no form of any object: where they stop to be UTF-8, where they stop to be
// JSON, or how many lines their report has.
fn error_of(alloc: Global, bytes: &[u8]) -> (Option<Place>, Option<Place>, usize) {
    let mut scratch = Scratch::new(alloc);
    let form = Object(Member("name", Null));
    match read_json(alloc, bytes, &mut scratch, &form, &DefaultI18n) {
        Err(ReadError::Parse(ParseError::NotUtf8(at))) => (Some(at), None, 0),
        Err(ReadError::Parse(ParseError::NotJson(at))) => (None, Some(at), 0),
        Err(ReadError::Report(report)) => (None, None, report.len()),
        _ => (None, None, 0),
    }
}

// Where bytes stop in the test below.
const STOP: Place = Place { line: 2, column: 3 };

#[test]
fn tells_bytes_that_are_no_json_apart(rt: HostRuntime) {
    let alloc = rt.alloc();
    assert!(rt;
        error_of(alloc, b"[\n0 1]") == (None, Some(STOP), 0)
            && error_of(alloc, b"[\n0 \xff]") == (Some(STOP), None, 0)
            && error_of(alloc, b"[\n0]") == (None, None, 1)
            && is_text(ReadError::Memory.to_string(alloc), "out of memory")
    );
}
