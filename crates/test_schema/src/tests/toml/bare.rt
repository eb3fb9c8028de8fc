//! Dates, times, `nan` and `inf`, which TOML has without quotes and JSON does not have: which forms
//! take them, and the whole report of the others.

use crate::tests::is_text;
use garde::{DefaultI18n, all};
use garde_form::{Character, OrEmpty, Parsed};
use garde_parsed::{Date, DateTime, ParsedInMemory, Time, Timestamp, Url, Uuid};
use garde_schema::{
    Any, Closed, Flag, Form, List, Map, Null, Nullable, Object, OneOf, Optional, Scratch, Text,
    TextOr, U8, Whole, read_json,
};
use garde_toml::toml_to_json;
use std::alloc::{AllocError, Global};
use std::fmt::Write;

// What is read of four bare values, or what is told of them.
fn read_dates(alloc: Global, json: &[u8]) -> Result<String, AllocError> {
    let form = Object(Closed((
        Optional("on", Parsed(Date, ())),
        Optional("at", Parsed(Time, ())),
        Optional("from", OrEmpty(Parsed(DateTime, ()))),
        Optional("sent", Nullable(Parsed(Timestamp, ()))),
    )));
    let mut scratch = Scratch::new(alloc);
    match read_json(alloc, json, &mut scratch, &form, &DefaultI18n) {
        Ok((on, at, from, sent)) => {
            let (from, sent) = (from.flatten(), sent.flatten());
            format!(in alloc; "{on:?} {at:?} {from:?} {sent:?}")
        }
        Err(error) => error.to_string(alloc),
    }
}

static DATES: [(&str, &str); 8] = [
    (
        "on = 1979-05-27\nat = 07:32:00\nfrom = 1979-05-27T07:32:00\nsent = 1979-05-27T07:32:00Z",
        "Some(1979-05-27) Some(07:32:00) Some(1979-05-27T07:32:00) Some(1979-05-27T07:32:00Z)",
    ),
    (
        "on = '1979-05-27'\nat = '07:32:00'\nfrom = '1979-05-27T07:32:00'\nsent = '1979-05-27T07:32:00Z'",
        "Some(1979-05-27) Some(07:32:00) Some(1979-05-27T07:32:00) Some(1979-05-27T07:32:00Z)",
    ),
    (
        "at = 07:32:00.25\nfrom = ''\nsent = 1979-05-27 00:32:00.999999-07:00",
        "None Some(07:32:00.25) None Some(1979-05-27T07:32:00.999999Z)",
    ),
    (
        "on = 07:32:00\nat = 1979-05-27\nfrom = 1979-05-27T07:32:00Z\nsent = 1979-05-27T07:32:00",
        "on: not a date\nat: not a time\nfrom: not a date and time\nsent: not a timestamp\n",
    ),
    (
        "on = nan\nat = inf\nfrom = -inf\nsent = +nan",
        "on: not a date\nat: not a time\nfrom: not a date and time\nsent: not a timestamp\n",
    ),
    (
        "on = 19790527\nat = 7.5\nfrom = true\nsent = {}",
        "on: not a text\nat: not a text\nfrom: not a text\nsent: not a text\n",
    ),
    (
        "on = [-0, '1979-05-27']\nat = [-0.0, '07:32:00']\nfrom = []\nsent = ['1979-05-27T07:32:00Z']",
        "on: not a text\nat: not a text\nfrom: not a text\nsent: not a text\n",
    ),
    (
        "on = [1979-05-27]\nat = [07:32:00, 07:32:00]\nfrom = [[1979-05-27]]\nsent = [nan]",
        "on: not a text\nat: not a text\nfrom: not a text\nsent: not a text\n",
    ),
];

// Whether this is read of the four values of a text.
fn are_dates(alloc: Global, text: &str, told: &str) -> bool {
    match toml_to_json(alloc, text) {
        Ok(json) => is_text(read_dates(alloc, json.as_bytes()), told),
        Err(_) => false,
    }
}

#[test]
fn reads_dates_without_quotes(rt: HostRuntime) {
    for (text, expected) in &DATES {
        assert!(rt; are_dates(rt.alloc(), text, expected), "{expected}");
    }
}

// JSON alone: a bare value is read as `write_bare` writes it, and what only resembles it is not.
static LISTS: [(&str, &str); 7] = [
    (
        "{\"on\":[-0,\"1979-05-27\"]}",
        "Some(1979-05-27) None None None",
    ),
    ("{\"on\":\"1979-05-27\"}", "Some(1979-05-27) None None None"),
    ("{\"on\":[0,\"1979-05-27\"]}", "on: not a text\n"),
    ("{\"on\":[-0.0,\"1979-05-27\"]}", "on: not a text\n"),
    ("{\"on\":[\"1979-05-27\",-0]}", "on: not a text\n"),
    ("{\"on\":[-0,\"1979-05-27\",-0]}", "on: not a text\n"),
    ("{\"on\":[-0]}", "on: not a text\n"),
];

#[test]
fn reads_a_bare_value_of_json(rt: HostRuntime) {
    for (text, expected) in &LISTS {
        let told = read_dates(rt.alloc(), text.as_bytes());
        assert!(rt; is_text(told, expected), "{text}");
    }
}

// What a form tells of JSON: its report, or that it is valid.
fn report_by<'a, F: Form<'a>>(
    alloc: Global,
    json: &'a [u8],
    scratch: &'a mut Scratch,
    form: &F,
) -> Result<String, AllocError>
where
    F::Out: Drop,
{
    match read_json(alloc, json, scratch, form, &DefaultI18n) {
        Ok(_) => String::from_str(alloc, "valid"),
        Err(error) => error.to_string(alloc),
    }
}

// What forms of other kinds tell of members with these names.
fn read_others(alloc: Global, json: &[u8]) -> Result<String, AllocError> {
    let known = [("nan", ()), ("1979-05-27", ())];
    let open = Optional("a", Text(()));
    let texts = all!(
        Optional("text", Text(())),
        Optional("nullable", Nullable(Text(()))),
        Optional("either", TextOr(Text(()), Map(Text(())))),
        Optional("known", OneOf(&known)),
        Optional("character", Parsed(Character, ())),
        Optional("byte", Parsed(U8, ())),
        Optional("uuid", Parsed(Uuid, ())),
        Optional("url", ParsedInMemory(Url, ()))
    );
    let others = all!(
        Optional("number", Whole(U8, ())),
        Optional("flag", Flag),
        Optional("null", Null),
        Optional("open", Object(open)),
        Optional("map", Map(Text(()))),
        Optional("list", List(Text(()))),
        Optional("any", Any)
    );
    let mut scratch = Scratch::new(alloc);
    report_by(alloc, json, &mut scratch, &Object(Closed((texts, others))))
}

// Each of these forms, of a bare value of this text.
fn told_of_each(alloc: Global, value: &str) -> Result<String, AllocError> {
    let mut text = String::new(alloc);
    for name in &NAMES {
        write!(text, "{name} = {value}\n")?;
    }
    match toml_to_json(alloc, text.as_str()) {
        Ok(json) => read_others(alloc, json.as_bytes()),
        Err(error) => error.to_string(alloc),
    }
}

static NAMES: [&str; 15] = [
    "text",
    "nullable",
    "either",
    "known",
    "character",
    "byte",
    "uuid",
    "url",
    "number",
    "flag",
    "null",
    "open",
    "map",
    "list",
    "any",
];

// `Any` takes it, and a list has a number for its first item.
const FAULTS: &str = "\
text: not a text
nullable: not a text
either: not an object
known: not a text
character: not a text
byte: not a text
uuid: not a text
url: not a text
number: not a whole number
flag: not true or false
null: not null
open: not an object
map: not an object
list[0]: not a text
";

static BARE: [&str; 8] = [
    "nan",
    "inf",
    "-inf",
    "1979-05-27",
    "07:32:00",
    "1979-05-27T07:32:00",
    "1979-05-27T07:32:00Z",
    "1979-05-27 07:32:00.25+01:00",
];

#[test]
fn tells_what_has_no_quotes(rt: HostRuntime) {
    for value in &BARE {
        assert!(rt; is_text(told_of_each(rt.alloc(), value), FAULTS), "{value}");
    }
}
