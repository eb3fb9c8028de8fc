//! The fields of a web form: the names and the texts of each body.

use crate::tests::long_text::Long;
use crate::tests::{OrEnd, is_text};
use garde_form::form_fields;
use std::alloc::{AllocError, Global};
use std::fmt::Write;

// A line for each field.
fn told(alloc: Global, body: &[u8]) -> Result<String, AllocError> {
    let fields = form_fields(alloc, body)?;
    let mut told = String::new(alloc);
    for (name, text) in fields.as_slice() {
        write!(told, "{name}: {text}\n")?;
    }
    Ok(told)
}

static FIELDS: [(&[u8], &str); 15] = [
    (b"", ""),
    (b"&&", ""),
    (b"a=b", "a: b\n"),
    (b"a=1&b=2&a=3", "a: 1\nb: 2\na: 3\n"),
    (b"a", "a: \n"),
    (b"a&&b=&", "a: \nb: \n"),
    (b"=a", ": a\n"),
    (b"a=b=c", "a: b=c\n"),
    (b"a+b=c++d", "a b: c  d\n"),
    (b"%61=%2B%26%3D%25", "a: +&=%\n"),
    (b"a=%&b=%4&c=%zz&d=%%41", "a: %\nb: %4\nc: %zz\nd: %A\n"),
    (b"a=%00%0a%22%5C", "a: \0\n\"\\\n"),
    (b"a=%C3%A9&b=\xc3\xa9", "a: \u{e9}\nb: \u{e9}\n"),
    (b"a=%FF", "a: \u{fffd}\n"),
    (b"b=\xff", "b: \u{fffd}\n"),
];

#[test]
fn decodes_each_field(rt: HostRuntime) {
    for (body, expected) in &FIELDS {
        assert!(rt; is_text(told(rt.alloc(), body), expected), "{expected}");
    }
}

// A body of ten thousand fields, all of one name, and the line of each.
static MANY: (Long, Long) = (
    Long::Repeated("", (10_000, "a=1&"), "", (0, ""), ""),
    Long::Repeated("", (10_000, "a: 1\n"), "", (0, ""), ""),
);

#[test]
fn decodes_each_of_ten_thousand_fields(rt: HostRuntime) {
    let body = MANY.0.text(rt.alloc()).or_end(&rt);
    let told = told(rt.alloc(), body.as_str().as_bytes());
    assert!(rt; MANY.1.is(rt.alloc(), told));
}
