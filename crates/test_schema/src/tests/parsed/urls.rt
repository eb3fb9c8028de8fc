//! URLs: the text of each, or the whole report.

use crate::tests::is_text;
use garde::DefaultI18n;
use garde_parsed::{ParsedInMemory, Url};
use garde_schema::{Scratch, read_json};
use std::alloc::{AllocError, Global};

// What is told of a text.
fn told(alloc: Global, text: &str) -> Result<String, AllocError> {
    let json = format!(in alloc; "\"{text}\"")?;
    let mut scratch = Scratch::new(alloc);
    let form = ParsedInMemory(Url, ());
    match read_json(alloc, json.as_bytes(), &mut scratch, &form, &DefaultI18n) {
        Ok(value) => String::from_str(alloc, value.as_str()),
        Err(error) => error.to_string(alloc),
    }
}

const NO_URL: &str = "not a URL\n";

// The examples of the URL Standard, sections 3.5 and 4.4, and of RFC 3986, section 1.1.2.
static URLS: [(&str, &str); 18] = [
    ("https://example.com/././foo", "https://example.com/foo"),
    ("https:example.org", "https://example.org/"),
    ("hello:world", "hello:world"),
    ("https://EXAMPLE.com/../x", "https://example.com/x"),
    ("http://1.2.3/", "http://1.2.0.3/"),
    ("http://[::1]/", "http://[::1]/"),
    ("https://example.org//", "https://example.org//"),
    ("mailto:John.Doe@example.com", "mailto:John.Doe@example.com"),
    ("tel:+1-816-555-1212", "tel:+1-816-555-1212"),
    ("  https://example.org/ ", "https://example.org/"),
    ("", NO_URL),
    ("/page", NO_URL),
    ("example.org", NO_URL),
    ("https://ex ample.org/", NO_URL),
    ("http://[www.example.com]/", NO_URL),
    ("https://example.com:demo", NO_URL),
    ("https://127.0.0.256/", NO_URL),
    ("https://#fragment", NO_URL),
];

#[test]
fn reads_urls(rt: HostRuntime) {
    for (text, expected) in &URLS {
        assert!(rt; is_text(told(rt.alloc(), text), expected), "{text}");
    }
}
