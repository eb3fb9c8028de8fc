//! Web forms read by a form: the whole report of each body, or its values.

use crate::tests::is_text;
use garde::fields::Is;
use garde::{DefaultI18n, length, range};
use garde_form::{OrEmpty, Parsed, Trimmed, form_fields, read_form};
use garde_schema::{Closed, I8, Member, Object, Optional, Text, U8};
use std::alloc::{AllocError, Global};

// What is told of who signs up.
fn told(alloc: Global, body: &[u8]) -> Result<String, AllocError> {
    let form = Object(Closed((
        Member("name", Text(Is(length!(chars, min = 1, max = 8)))),
        Member("age", Parsed(U8, Is(range!(min = 18, max = 120)))),
        Optional("shift", OrEmpty(Parsed(I8, ()))),
    )));
    let fields = form_fields(alloc, body)?;
    match read_form(alloc, fields.as_slice(), &[], &form, &DefaultI18n) {
        Ok((name, age, shift)) => {
            let name = name.text();
            format!(in alloc; "{name} {age} {shift:?}")
        }
        Err(error) => error.to_string(alloc),
    }
}

static FORMS: [(&str, &str); 14] = [
    ("name=Ada&age=36", "Ada 36 None"),
    (
        "name=Ada+L.&age=%2B0120&shift=-128",
        "Ada L. 120 Some(Some(-128))",
    ),
    ("shift=&age=18&name=A", "A 18 Some(None)"),
    ("", "name: missing\nage: missing\n"),
    (
        "name=&age=&shift=x",
        "name: length is lower than 1\nage: not a whole number\nshift: not a whole number\n",
    ),
    ("name=A&age=17", "age: lower than 18\n"),
    ("name=A&age=256", "age: greater than 120\n"),
    ("name=A&age=-1", "age: lower than 18\n"),
    (
        "name=A&age=18&shift=0000000000000000000000000000000000000128",
        "shift: out of range: -128 to 127\n",
    ),
    (
        "name=A&name=A&age=18&age=19",
        "name: repeated\nage: repeated\n",
    ),
    ("name=A&age=18&shift=&shift=", "shift: repeated\n"),
    (
        "name=A&age=18&admin=1&admin=2&=",
        "admin: not known here\nadmin: not known here\n: not known here\n",
    ),
    ("name=A&age=1%008", "age: not a whole number\n"),
    ("name=A&Age=18", "age: missing\nAge: not known here\n"),
];

#[test]
fn tells_every_fault_of_a_web_form(rt: HostRuntime) {
    for (body, expected) in &FORMS {
        assert!(rt;
            is_text(told(rt.alloc(), body.as_bytes()), expected),
            "{body}"
        );
    }
}

// What is told of who signs up, where texts are pasted with white space.
fn told_trimmed(alloc: Global, body: &[u8]) -> Result<String, AllocError> {
    let form = Object((
        Member("name", Trimmed(Text(Is(length!(chars, min = 1, max = 8))))),
        Member("age", Trimmed(Parsed(U8, ()))),
    ));
    let fields = form_fields(alloc, body)?;
    match read_form(alloc, fields.as_slice(), &[], &form, &DefaultI18n) {
        Ok((name, age)) => {
            let name = name.text();
            format!(in alloc; "{name}|{age}")
        }
        Err(error) => error.to_string(alloc),
    }
}

static TRIMMED: [(&str, &str); 5] = [
    ("name=+Ada+%0D%0A&age=%09+36+", "Ada|36"),
    ("name=Ada+L.&age=%C2%A036%E3%80%80", "Ada L.|36"),
    (
        "name=+&age=3+6",
        "name: length is lower than 1\nage: not a whole number\n",
    ),
    ("name=%E2%80%8B&age=36", "\u{200b}|36"),
    ("name=%00&age=%E2%80%8B36", "age: not a whole number\n"),
];

#[test]
fn trims_texts(rt: HostRuntime) {
    for (body, expected) in &TRIMMED {
        assert!(rt;
            is_text(told_trimmed(rt.alloc(), body.as_bytes()), expected),
            "{body}"
        );
    }
}
