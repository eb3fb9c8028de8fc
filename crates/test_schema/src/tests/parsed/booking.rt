//! One schema with parsed texts, over JSON and over a web form: the values, or the whole report.
ghost use Rattle.std.specs.Prelude.{int_le};
ghost use Rattle.garde.specs.Fields.{asks};

use crate::tests::is_text;
use garde::fields::{Is, Rule};
use garde::{DefaultI18n, I18n, RuleError};
use garde_form::{FormField, OrEmpty, Parsed, form_fields, read_form};
use garde_parsed::{Date, Ipv6, Time, Timestamp};
use garde_schema::{Closed, Member, Object, Optional, Scratch, read_json};
use std::alloc::{AllocError, Global};
use std::borrow::CowStr;

/// The year is this one or a later one.
#[derive(Clone, Copy)]
struct Since(i16);

impl Rule<jiff::civil::Date> for Since {
    ghost finds = { λ rule date. asks "too early" (int_le rule.0 date.year) };

    fn find<H: I18n>(
        &self,
        alloc: Global,
        date: &jiff::civil::Date,
        _h: &H,
    ) -> Result<(), RuleError> {
        if self.0 <= date.year() {
            Ok(())
        } else {
            Err(RuleError::of(alloc, Ok(CowStr::Borrowed("too early"))))
        }
    }
}

// What a booking is read from.
enum Input<'a> {
    Json(&'a [u8]),
    Fields(&'a [FormField<'a>]),
}

// What is told of a booking without a fault.
fn shown(
    alloc: Global,
    on: jiff::civil::Date,
    at: jiff::civil::Time,
    sent: Option<jiff::Timestamp>,
    from: bool,
) -> Result<String, AllocError> {
    format!(in alloc; "{on} {at} {sent:?} {from}")
}

// What is told of a booking.
fn told(alloc: Global, input: Input<'_>) -> Result<String, AllocError> {
    let form = Object(Closed((
        Member("on", Parsed(Date, Is(Since(2026)))),
        Member("at", Parsed(Time, ())),
        Optional("sent", Parsed(Timestamp, ())),
        Optional("from", OrEmpty(Parsed(Ipv6, ()))),
    )));
    let mut scratch = Scratch::new(alloc);
    match input {
        Input::Json(json) => match read_json(alloc, json, &mut scratch, &form, &DefaultI18n) {
            Ok((on, at, sent, from)) => shown(alloc, on, at, sent, from.flatten().is_some()),
            Err(error) => error.to_string(alloc),
        },
        Input::Fields(fields) => match read_form(alloc, fields, &[], &form, &DefaultI18n) {
            Ok((on, at, sent, from)) => shown(alloc, on, at, sent, from.flatten().is_some()),
            Err(error) => error.to_string(alloc),
        },
    }
}

static JSON: [(&str, &str); 6] = [
    (
        "{\"on\":\"2026-11-25\",\"at\":\"22:15\"}",
        "2026-11-25 22:15:00 None false",
    ),
    (
        "{\"from\":\"::1\",\"sent\":\"2026-11-25T21:15:00Z\",\"at\":\"T2215\",\"on\":\"20261125\"}",
        "2026-11-25 22:15:00 Some(2026-11-25T21:15:00Z) true",
    ),
    (
        "{\"on\":\"2025-12-31\",\"at\":\"24:00\",\"sent\":\"2026-11-25\",\"from\":\"192.0.2.1\"}",
        "on: too early\nat: not a time\nsent: not a timestamp\nfrom: not an IPv6 address\n",
    ),
    (
        "{\"on\":20261125,\"at\":null,\"sent\":{},\"from\":1.5}",
        "on: not a text\nat: not a text\nsent: not a text\nfrom: not a text\n",
    ),
    (
        "{\"on\":\"2026-02-29\",\"on\":\"2026-11-25\",\"of\":\"\"}",
        "on: repeated\nat: missing\nof: not known here\n",
    ),
    (
        "{\"on\":\"\",\"at\":\"\",\"sent\":\"\",\"from\":\"\"}",
        "on: not a date\nat: not a time\nsent: not a timestamp\n",
    ),
];

#[test]
fn tells_every_fault_of_json(rt: HostRuntime) {
    for (body, expected) in &JSON {
        assert!(rt;
            is_text(told(rt.alloc(), Input::Json(body.as_bytes())), expected),
            "{body}"
        );
    }
}

static FORMS: [(&str, &str); 5] = [
    (
        "on=2026-11-25&at=22%3A15&from=",
        "2026-11-25 22:15:00 None false",
    ),
    (
        "from=%3A%3A1&sent=2026-11-25T22:15:00%2B01:00&at=22:15:00&on=2026-11-25",
        "2026-11-25 22:15:00 Some(2026-11-25T21:15:00Z) true",
    ),
    (
        "on=25.11.2026&at=10+pm&sent=2026-11-25T22:15:00+01:00&from=%5B::1%5D",
        "on: not a date\nat: not a time\nsent: not a timestamp\nfrom: not an IPv6 address\n",
    ),
    ("on=1999-12-31", "on: too early\nat: missing\n"),
    ("", "on: missing\nat: missing\n"),
];

// Whether this is told of the fields of a web form.
fn is_told(alloc: Global, body: &str, text: &str) -> bool {
    match form_fields(alloc, body.as_bytes()) {
        Ok(fields) => is_text(told(alloc, Input::Fields(fields.as_slice())), text),
        Err(_) => false,
    }
}

#[test]
fn tells_every_fault_of_a_web_form(rt: HostRuntime) {
    for (body, expected) in &FORMS {
        assert!(rt; is_told(rt.alloc(), body, expected), "{body}");
    }
}
